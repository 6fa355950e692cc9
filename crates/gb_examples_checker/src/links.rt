//! Links that are written: which of them each version can say, and that they are read as they were written.

use gb_cert::{
    Cert, CertificatePlan, NodePlan, ProcedurePlan, Version, WriteFault, write_certificate,
};
use gb_domain::pairs::{Link, Other, Pairs, WordPair};
use gb_domain::relations::Relations;
use gb_domain::types::Abs;
use gb_ops::machine::Region;
use gb_ops::op::Register;
use gb_samples::relations::are_same;
use gb_samples::states::entered;
use std::alloc::Global;
use std::test::Fail;

const REGION: Region = Region {
    first: 0xDF00,
    last: 0xDFFF,
};

/// HL + A = C000.
const PLAIN: Link = Link {
    other: Other::Register(Register::A),
    factor: 1,
    base: None,
    sum: 0xC000,
    width: 0,
};

/// HL + A - BC at entry = C000.
const BASED: Link = Link {
    base: Some(WordPair::Bc),
    ..PLAIN
};

/// HL - HL at entry = C000.
const ALONE: Link = Link {
    other: Other::Nothing,
    base: Some(WordPair::Hl),
    ..PLAIN
};

/// HL + the byte at C0A0 = C000.
const READING: Link = Link {
    other: Other::Cell(0xC0A0),
    ..PLAIN
};

/// A state that knows this of HL, and nothing else of several parts together.
fn state_with(link: Link) -> Abs {
    let mut pairs = Pairs::default();
    pairs.hl.link = Some(link);
    let mut state = Abs::new(entered());
    state.set_relations(Relations {
        pairs,
        ..Relations::default()
    });
    state
}

/// A certificate whose one node has this state.
fn with_state(alloc: Global, version: Version, state: &Abs) -> Result<Vec<u8>, WriteFault> {
    let procedures = [ProcedurePlan {
        entry: 0,
        base: 0xE000,
        need: 0,
        ranges: &[],
        kept: &[],
        mark: 0,
        exit: None,
    }];
    let nodes = [NodePlan {
        procedure: 0,
        address: 0x0100,
        bank: 0,
        state,
    }];
    let plan = CertificatePlan {
        version,
        region: REGION,
        facts: &[],
        procedures: &procedures,
        nodes: &nodes,
    };
    write_certificate(alloc, &plan)
}

/// Links, and whether a version can say them.
const SAID: [(Version, Link, bool); 13] = [
    (Version::Two, PLAIN, false),
    (Version::Three, PLAIN, true),
    (Version::Three, Link { width: 1, ..PLAIN }, false),
    (Version::Three, BASED, false),
    (Version::Three, ALONE, false),
    (Version::Three, READING, false),
    (Version::Four, PLAIN, true),
    (Version::Four, Link { width: 1, ..PLAIN }, true),
    (Version::Four, BASED, true),
    (Version::Four, ALONE, true),
    (Version::Four, READING, true),
    // It says nothing of two parts, and there is no field for a factor.
    (
        Version::Four,
        Link {
            base: None,
            ..ALONE
        },
        false,
    ),
    (Version::Four, Link { factor: 2, ..ALONE }, false),
];

#[test]
fn links_are_written_where_a_version_has_them(rt: HostRuntime) {
    for (i, (version, link, is_said)) in SAID.iter().enumerate() {
        let fault = with_state(rt.alloc(), *version, &state_with(*link)).err();
        let expected = if *is_said {
            None
        } else {
            Some(WriteFault::Relations)
        };
        assert!(rt; fault == expected, "link {i}");
    }
}

/// Links of version 4, and the bytes after HL's bounds that say them.
const SPELLED: [(Link, &[u8]); 8] = [
    (PLAIN, &[0x01, 0x01, 0x00, 0xC0]),
    (
        Link {
            width: 0x0100,
            ..PLAIN
        },
        &[0x81, 0x01, 0x00, 0xC0, 0x00, 0x01],
    ),
    (BASED, &[0x41, 0x01, 0x00, 0x00, 0xC0]),
    (
        Link {
            other: Other::Pair(WordPair::Hl),
            factor: 0xFFFF,
            base: Some(WordPair::De),
            sum: 0x0004,
            width: 0xFFFF,
        },
        &[0xCA, 0xFF, 0x01, 0x04, 0x00, 0xFF, 0xFF],
    ),
    (ALONE, &[0x4D, 0x02, 0x00, 0xC0]),
    (
        Link {
            width: 0x0001,
            ..ALONE
        },
        &[0xCD, 0x02, 0x00, 0xC0, 0x01, 0x00],
    ),
    (READING, &[0x0B, 0xA0, 0xC0, 0x01, 0x00, 0xC0]),
    (
        Link {
            other: Other::Cell(0xFF80),
            factor: 0xFFFE,
            base: Some(WordPair::De),
            sum: 0x0004,
            width: 0x0100,
        },
        &[0xCB, 0x80, 0xFF, 0xFE, 0x01, 0x04, 0x00, 0x00, 0x01],
    ),
];

/// The last byte is the number of cells, which is 0.
fn ends_with(bytes: &[u8], link: &[u8]) -> bool {
    let end = bytes.len().saturating_sub(1);
    bytes.get(end.saturating_sub(link.len())..end) == Some(link)
}

#[test]
fn links_are_read_as_written(rt: HostRuntime) -> Result<(), Fail> {
    for (i, (link, expected)) in SPELLED.iter().enumerate() {
        let state = state_with(*link);
        let bytes = with_state(rt.alloc(), Version::Four, &state)?;
        assert!(rt; ends_with(&bytes, expected), "link {i}");
        let cert = Cert::parse(rt.alloc(), &bytes)?;
        assert!(rt;
            are_same(cert.node(0).state().relations(), state.relations()),
            "link {i}"
        );
    }
    Ok(())
}
