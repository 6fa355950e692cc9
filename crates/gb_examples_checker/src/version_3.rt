//! Certificates of version 3, read, written again and judged.

use gb_cert::{
    Cert, CertificatePlan, NodePlan, NodeRef, ProcedurePlan, Version, WriteFault, encode,
    write_certificate,
};
use gb_domain::pairs::{ANY_BOUNDS, Bounds, Link, Other, PairFacts, Pairs, WordPair};
use gb_domain::places::{NO_REGISTER, OneByte, Test};
use gb_domain::relations::Relations;
use gb_domain::types::{Abs, Cell, Origin, Range, Val};
use gb_ops::op::Register;
use gb_ops::registers::Registers;
use gb_samples::cartridges::{PLAIN, small};
use gb_samples::programs::LOOP;
use gb_samples::relations::are_same;
use gb_samples::states::{ANY, from_to};
use gb_text::kept_bytes::KeptBytes;
use gb_verify::verify::verify_bytes;
use std::alloc::{AllocError, Global};
use std::test::Fail;

/// Three nodes of main, which needs 32 bytes of stack. A node takes 48 bytes behind the 24 of head and main: its registers and
/// flags may be any, and it has no items, nothing that is known together, and no cells.
const LEAST: [u8; 168] = [
    0x47, 0x42, 0x42, 0x58, 0x03, 0x00, 0xDF, 0xFF, 0xDF, 0x01, 0x03, 0x00, 0x00, 0x00, 0x00, 0x00,
    0x00, 0x00, 0x00, 0xE0, 0x20, 0x00, 0x00, 0x00, 0x00, 0x00, 0x01, 0x00, 0x00, 0x01, 0x00, 0x00,
    0x00, 0x00, 0x01, 0x00, 0x01, 0x00, 0x00, 0x00, 0x01, 0x01, 0x00, 0xFF, 0x00, 0x00, 0x00, 0x00,
    0x00, 0xFF, 0x00, 0x00, 0xFF, 0x00, 0x00, 0xFF, 0x00, 0x00, 0xFF, 0x00, 0x00, 0xFF, 0x00, 0x00,
    0xFF, 0x00, 0x00, 0xFF, 0x00, 0x00, 0x00, 0x00, 0x00, 0x01, 0x01, 0x00, 0x00, 0x01, 0x00, 0x00,
    0x00, 0x00, 0x01, 0x00, 0x01, 0x00, 0x00, 0x00, 0x01, 0x01, 0x00, 0xFF, 0x00, 0x00, 0x00, 0x00,
    0x00, 0xFF, 0x00, 0x00, 0xFF, 0x00, 0x00, 0xFF, 0x00, 0x00, 0xFF, 0x00, 0x00, 0xFF, 0x00, 0x00,
    0xFF, 0x00, 0x00, 0xFF, 0x00, 0x00, 0x00, 0x00, 0x00, 0x50, 0x01, 0x00, 0x00, 0x01, 0x00, 0x00,
    0x00, 0x00, 0x01, 0x00, 0x01, 0x00, 0x00, 0x00, 0x01, 0x01, 0x00, 0xFF, 0x00, 0x00, 0x00, 0x00,
    0x00, 0xFF, 0x00, 0x00, 0xFF, 0x00, 0x00, 0xFF, 0x00, 0x00, 0xFF, 0x00, 0x00, 0xFF, 0x00, 0x00,
    0xFF, 0x00, 0x00, 0xFF, 0x00, 0x00, 0x00, 0x00,
];

/// What is changed of it: from which byte on, how many bytes are taken out, and which are put in; and the fault's number, 0
/// where the bytes are a certificate.
type Change = (usize, usize, &'static [u8], u8);

const CHANGES: [Change; 29] = [
    // The version: 5, and those that another letter goes with.
    (4, 1, &[0x05], 3),
    (4, 1, &[0x01], 3),
    (4, 1, &[0x02], 3),
    // Main's base, a range of main, and a need over the region's bytes.
    (18, 2, &[0xFE, 0xDF], 5),
    (22, 1, &[0x01, 0x00, 0xC0, 0xFF, 0xC0], 4),
    (20, 2, &[0x01, 0x01], 7),
    // Another procedure's base below the region, and over its end; and its need over 8,192.
    (9, 12, BASE_BELOW, 5),
    (9, 12, BASE_ABOVE, 5),
    (9, 13, NEED_ABOVE, 5),
    // A's test without places, and with bits too.
    (128, 1, &[0x01], 5),
    (128, 39, BOTH_TESTS, 5),
    // A's origin: the return word's low byte, and none that there is.
    (146, 1, &[0x0B], 0),
    (146, 1, &[0x0C], 5),
    // An item without a stack.
    (165, 0, &[0x01, 0x00, 0xFF], 5),
    // What is there: bit 7, an address without places, and bits without places.
    (166, 1, &[0x80], 5),
    (166, 1, &[0x02], 5),
    (166, 1, &[0x04], 5),
    // No place; A and an eighth register; an address in the region, and one that isn't in RAM.
    (166, 0, &[0x01], 5),
    (166, 1, &[0x01, 0x81], 5),
    (166, 1, &[0x03, 0x00, 0x80, 0xDF], 5),
    (166, 1, &[0x03, 0x00, 0x00, 0xE0], 5),
    // A fourth pair that is 0.
    (166, 1, &[0x08, 0x03], 5),
    // BC: its first word over its last, any word with no link, any with one, a link of an eleventh other, one by 0, one with a
    // width, and one with a base; only version 4 has those.
    (166, 0, &[0x10, 0x02, 0x00, 0x01, 0x00], 5),
    (166, 0, &[0x10, 0x00, 0x00, 0xFF, 0xFF], 5),
    (166, 0, &[0x10, 0x00, 0x00, 0xFF, 0xFF, 0x0A, 0x01, 0x00], 0),
    (166, 0, &[0x10, 0x00, 0x00, 0x01, 0x00, 0x0B, 0x01, 0x00], 5),
    (166, 0, &[0x10, 0x00, 0x00, 0x01, 0x00, 0x01, 0x00, 0x00], 5),
    (166, 0, &[0x10, 0x00, 0x00, 0x01, 0x00, 0x81, 0x01, 0x00], 5),
    (166, 0, &[0x10, 0x00, 0x00, 0x01, 0x00, 0x41, 0x01, 0x00], 5),
];

/// A node's state from its test on, 05, up to what is there: A, whose test has bits too.
const BOTH_TESTS: &[u8] = &[
    0x01, 0x00, 0x01, 0x00, 0x01, 0x00, 0x00, 0x00, 0x01, 0x01, 0x00, 0xFF, 0x00, 0x00, 0x00, 0x00,
    0x00, 0xFF, 0x00, 0x00, 0xFF, 0x00, 0x00, 0xFF, 0x00, 0x00, 0xFF, 0x00, 0x00, 0xFF, 0x00, 0x00,
    0xFF, 0x00, 0x00, 0xFF, 0x00, 0x00, 0x05, 0x01, 0x01,
];

/// Two procedures, main as it was, up to the second one's base and half of its need, or its whole need.
const BASE_BELOW: &[u8] = &[
    0x02, 0x03, 0x00, 0x00, 0x00, 0x00, 0x00, 0x00, 0x00, 0x00, 0xE0, 0x20, 0x00, 0x00, 0x00, 0x00,
    0x00, 0x00, 0x00, 0xFF, 0xDE, 0x02,
];

const BASE_ABOVE: &[u8] = &[
    0x02, 0x03, 0x00, 0x00, 0x00, 0x00, 0x00, 0x00, 0x00, 0x00, 0xE0, 0x20, 0x00, 0x00, 0x00, 0x00,
    0x00, 0x00, 0x00, 0x01, 0xE0, 0x02,
];

const NEED_ABOVE: &[u8] = &[
    0x02, 0x03, 0x00, 0x00, 0x00, 0x00, 0x00, 0x00, 0x00, 0x00, 0xE0, 0x20, 0x00, 0x00, 0x00, 0x00,
    0x00, 0x00, 0x00, 0x00, 0x00, 0x01, 0x20,
];

/// The certificate with a change.
fn changed(alloc: Global, change: &Change) -> Result<Vec<u8>, AllocError> {
    let (from, out, put, _) = *change;
    let mut bytes = Vec::new(alloc);
    bytes.extend_from_slice(LEAST.get(..from).unwrap_or(&[]))?;
    bytes.extend_from_slice(put)?;
    bytes.extend_from_slice(LEAST.get(from.wrapping_add(out)..).unwrap_or(&[]))?;
    Ok(bytes)
}

/// The fault's number, 0 where the bytes are a certificate that is written as it was read.
fn fault_of(alloc: Global, bytes: &[u8]) -> Result<u8, AllocError> {
    match Cert::parse(alloc, bytes) {
        Ok(cert) if encode(alloc, &cert)?.as_slice() == bytes => Ok(0),
        Ok(_) => Ok(255),
        Err(fault) => Ok(fault.number()),
    }
}

#[test]
fn changes_have_their_faults(rt: HostRuntime) -> Result<(), Fail> {
    for (i, change) in CHANGES.iter().enumerate() {
        let bytes = changed(rt.alloc(), change)?;
        assert!(rt;
            fault_of(rt.alloc(), bytes.as_slice())? == change.3,
            "change {i}"
        );
    }
    Ok(())
}

/// The certificate with so many cells in the last state, from C000 on, which may be any.
fn with_cells(alloc: Global, count: u8) -> Result<Vec<u8>, AllocError> {
    let mut bytes = Vec::from_slice(alloc, &LEAST[..167])?;
    bytes.push(count)?;
    for i in 0..count {
        bytes.extend_from_slice(&[i, 0xC0, 0x00, 0xFF, 0x00])?;
    }
    Ok(bytes)
}

/// 64 cells at most.
#[test]
fn a_state_has_64_cells(rt: HostRuntime) -> Result<(), Fail> {
    for (count, fault) in [(64, 0), (65, 4)] {
        let bytes = with_cells(rt.alloc(), count)?;
        assert!(rt;
            fault_of(rt.alloc(), bytes.as_slice())? == fault,
            "{count} cells"
        );
    }
    Ok(())
}

// ---- all that a certificate may say

/// What stands before a node's items, with the stack set: registers and flags may be any, and A was compared with 42.
const TESTED: &[u8] = &[
    0x01, 0x00, 0x01, 0x01, 0x42, 0x01, 0x00, 0x01, 0x00, 0x00, 0x00, 0x01, 0x01, 0x00, 0xFF, 0x00,
    0x00, 0x00, 0x00, 0x00, 0xFF, 0x00, 0x00, 0xFF, 0x00, 0x00, 0xFF, 0x00, 0x00, 0xFF, 0x00, 0x00,
    0xFF, 0x00, 0x00, 0xFF, 0x00, 0x00, 0xFF, 0x00,
];

/// A core without a test.
const UNTESTED: &[u8] = &[
    0x01, 0x00, 0x01, 0x00, 0x00, 0x01, 0x00, 0x01, 0x00, 0x00, 0x00, 0x01, 0x01, 0x00, 0xFF, 0x00,
    0x00, 0x00, 0x00, 0x00, 0xFF, 0x00, 0x00, 0xFF, 0x00, 0x00, 0xFF, 0x00, 0x00, 0xFF, 0x00, 0x00,
    0xFF, 0x00, 0x00, 0xFF, 0x00, 0x00, 0xFF, 0x00,
];

/// Two procedures and two nodes. Main begins at node 0, and needs three bytes; the other begins at node 1 above DFF0, needs
/// five, may write C000 to C0FF, and returns with one item.
const HEAD: &[u8] = &[
    0x47, 0x42, 0x42, 0x58, 0x03, 0x00, 0xDF, 0xFF, 0xDF, 0x02, 0x02, 0x00, 0x00, 0x00,
];

const MAIN: &[u8] = &[0x00, 0x00, 0x00, 0x00, 0x00, 0xE0, 0x03, 0x00, 0x00, 0x00];

const OTHER: &[u8] = &[
    0x01, 0x00, 0x00, 0x00, 0xF0, 0xDF, 0x05, 0x00, 0x01, 0x00, 0xC0, 0xFF, 0xC0, 0x01,
];

/// The item, nothing that is known together, and no cells.
const EXIT: &[u8] = &[0x01, 0x05, 0x06, 0x00, 0x00, 0x00];

/// Main's node at 0100.
const FIRST: &[u8] = &[0x00, 0x00, 0x01, 0x00, 0x00];

/// Three items.
const FIRST_ITEMS: &[u8] = &[0x01, 0x02, 0x00, 0x03, 0x03, 0x00, 0x00, 0xFF, 0x00];

/// A, L and C123 hold one byte; DE is 0 where Z is set; BC is 0010 to C020, and BC - 2 * C = 1234. One cell is held.
const FIRST_KNOWN: &[u8] = &[
    0x1B, 0x41, 0x23, 0xC1, 0x01, 0x10, 0x00, 0x20, 0xC0, 0x03, 0xFE, 0x34, 0x12, 0x01,
];

/// FF80 holds 07 to 08.
const FIRST_CELLS: &[u8] = &[0x80, 0xFF, 0x07, 0x08, 0x00];

/// The other's node at 4000 in bank 1.
const SECOND: &[u8] = &[0x01, 0x00, 0x40, 0x01, 0x00];

/// The return word.
const SECOND_ITEMS: &[u8] = &[0x00, 0xFF, 0x0A, 0x00, 0xFF, 0x0B];

/// Z is set where B has no bit 7; DE + HL = FFFF; HL is C000 to DFFF. No cell is held.
const SECOND_KNOWN: &[u8] = &[
    0x65, 0x02, 0x80, 0x00, 0x00, 0xFF, 0xFF, 0x0A, 0x01, 0xFF, 0xFF, 0x00, 0xC0, 0xFF, 0xDF, 0x00,
    0x00,
];

const PIECES: &[&[u8]] = &[
    HEAD,
    MAIN,
    OTHER,
    UNTESTED,
    EXIT,
    FIRST,
    TESTED,
    &[0x03],
    FIRST_ITEMS,
    FIRST_KNOWN,
    FIRST_CELLS,
    SECOND,
    UNTESTED,
    &[0x02],
    SECOND_ITEMS,
    SECOND_KNOWN,
];

/// The certificate's bytes.
fn full(alloc: Global) -> Result<Vec<u8>, AllocError> {
    let mut bytes = Vec::new(alloc);
    for piece in PIECES {
        bytes.extend_from_slice(piece)?;
    }
    Ok(bytes)
}

/// What is known together at the first node.
fn known_first() -> Relations {
    Relations {
        byte: OneByte {
            registers: Registers {
                a: true,
                l: true,
                ..NO_REGISTER
            },
            address: Some(0xC123),
            test: Some(Test::Compare(0x42)),
        },
        zero: Some(WordPair::De),
        pairs: Pairs {
            bc: PairFacts {
                bounds: Bounds {
                    first: 0x0010,
                    last: 0xC020,
                },
                link: Some(Link {
                    other: Other::Register(Register::C),
                    factor: 0xFFFE,
                    base: None,
                    sum: 0x1234,
                    width: 0,
                }),
            },
            ..Pairs::default()
        },
    }
}

/// What is known at the second node.
fn known_second() -> Relations {
    Relations {
        byte: OneByte {
            registers: Registers {
                b: true,
                ..NO_REGISTER
            },
            address: None,
            test: Some(Test::Bits(0x80)),
        },
        zero: None,
        pairs: Pairs {
            de: PairFacts {
                bounds: ANY_BOUNDS,
                link: Some(Link {
                    other: Other::Pair(WordPair::Hl),
                    factor: 1,
                    base: None,
                    sum: 0xFFFF,
                    width: 0,
                }),
            },
            hl: PairFacts {
                bounds: Bounds {
                    first: 0xC000,
                    last: 0xDFFF,
                },
                link: None,
            },
            ..Pairs::default()
        },
    }
}

/// A byte of the return word.
fn returned(origin: Origin) -> Val {
    Val {
        origin: Some(origin),
        ..ANY
    }
}

/// Whether the first node is as it was spelled.
fn is_first(cert: &Cert<'_>) -> bool {
    if cert.nodes() != 2 {
        return false;
    }
    let node = cert.node(0);
    let state = node.state();
    let items = [from_to(1, 2), from_to(3, 3), ANY];
    let cell = Cell {
        address: 0xFF80,
        val: from_to(7, 8),
    };
    node.test() == Some(0x42)
        && node.lent().items() == FIRST_ITEMS
        && node.lent().cells() == FIRST_CELLS
        && state.items() == items.as_slice()
        && state.cells() == [cell].as_slice()
        && are_same(state.relations(), &known_first())
}

/// Whether the second is.
fn is_second(cert: &Cert<'_>) -> bool {
    if cert.nodes() != 2 {
        return false;
    }
    let node = cert.node(1);
    let state = node.state();
    let items = [returned(Origin::ReturnHigh), returned(Origin::ReturnLow)];
    node.test().is_none()
        && node.lent().items() == SECOND_ITEMS
        && node.lent().cells().is_empty()
        && state.items() == items.as_slice()
        && are_same(state.relations(), &known_second())
}

/// Whether an exit has the item, and nothing is known together.
fn is_exit(exit: &Option<Abs>) -> bool {
    match exit {
        None => false,
        Some(exit) => {
            exit.items() == [from_to(5, 6)].as_slice()
                && are_same(exit.relations(), &Relations::default())
        }
    }
}

/// Whether the procedures are as they were spelled.
fn are_procedures(cert: &Cert<'_>) -> bool {
    if cert.version() == 4 {
        return false;
    }
    if cert.procedures() != 2 {
        return false;
    }
    let (main, other) = (cert.procedure(0), cert.procedure(1));
    let range = Range {
        first: 0xC000,
        last: 0xC0FF,
    };
    main.base() == 0xE000
        && main.need() == 3
        && cert.procedure_body(0) == &MAIN[4..]
        && other.base() == 0xDFF0
        && other.need() == 5
        && other.ranges().as_slice() == [range].as_slice()
        && is_exit(&other.exit())
}

/// Each part is read as it was spelled, and its version isn't raised.
#[test]
fn each_part_is_read(rt: HostRuntime) -> Result<(), Fail> {
    let bytes = full(rt.alloc())?;
    let cert = Cert::parse(rt.alloc(), bytes.as_slice())?;
    assert!(rt; cert.version() == 3 && cert.upgraded_head().as_slice() == HEAD);
    assert!(rt; are_procedures(&cert));
    assert!(rt; is_first(&cert));
    assert!(rt; is_second(&cert));
    Ok(())
}

/// A node's plan, its state given.
fn plan_of<'a>(node: &NodeRef<'_>, state: &'a Abs) -> NodePlan<'a> {
    NodePlan {
        procedure: node.procedure(),
        address: node.address(),
        bank: node.bank(),
        state,
    }
}

/// What is written of the values that are read of two procedures and two nodes.
fn written(alloc: Global, cert: &Cert<'_>) -> Result<Vec<u8>, WriteFault> {
    if cert.procedures() != 2 || cert.nodes() != 2 {
        return Err(WriteFault::Entry);
    }
    let (main, other) = (cert.procedure(0), cert.procedure(1));
    let (ranges, exit) = (other.ranges(), other.exit());
    let mut procedures = Vec::new(alloc);
    procedures.push(ProcedurePlan {
        entry: main.entry(),
        base: main.base(),
        need: main.need(),
        ranges: &[],
        kept: &[],
        mark: 0,
        exit: None,
    })?;
    procedures.push(ProcedurePlan {
        entry: other.entry(),
        base: other.base(),
        need: other.need(),
        ranges: ranges.as_slice(),
        kept: &[],
        mark: 0,
        exit: exit.as_ref(),
    })?;
    let (first, second) = (cert.node(0), cert.node(1));
    let (first_state, second_state) = (first.state(), second.state());
    let mut nodes = Vec::new(alloc);
    nodes.push(plan_of(&first, &first_state))?;
    nodes.push(plan_of(&second, &second_state))?;
    let plan = CertificatePlan {
        version: Version::Three,
        region: cert.region(),
        facts: &[],
        procedures: procedures.as_slice(),
        nodes: nodes.as_slice(),
    };
    write_certificate(alloc, &plan)
}

/// What is read is written again from its values.
#[test]
fn each_part_is_written(rt: HostRuntime) -> Result<(), Fail> {
    let bytes = full(rt.alloc())?;
    let cert = Cert::parse(rt.alloc(), bytes.as_slice())?;
    assert!(rt; written(rt.alloc(), &cert)?.as_slice() == bytes.as_slice());
    Ok(())
}

/// A loop of one instruction, of whose states nothing is asked.
#[test]
fn a_loop_is_accepted(rt: HostRuntime) {
    let mut out = KeptBytes::new(96, 96);
    let _ = verify_bytes(rt.alloc(), &small(PLAIN, LOOP), &LEAST, &mut out);
    assert!(rt; out.kept() == b"ACCEPTED nodes 3 procedures 1\n".as_slice());
}
