//! What certificates of version 4 lack, and how one is listed, worked by hand from the rules.

use crate::spelled::{Changes, Spelled, WholeNode, WholeProcedure, WholeState, whole_certificate};
use gb_abs::reason::Reason;
use gb_page::{Cert, Extras, Listing, Rom, Symbols, explain, facts_json, page_of};
use gb_samples::cartridges::{PLAIN, Sizes, small};
use std::alloc::Global;
use std::test::Fail;

/// MBC1 with 32 KiB of ROM and no RAM.
const MBC1: Sizes = [0x01, 0x00, 0x00];

/// MBC5, likewise.
const MBC5: Sizes = [0x19, 0x00, 0x00];

/// LD H,C0 at 0150, and a loop after it.
const SETS_H: &[u8] = &[0x26, 0xC0, 0x18, 0xFE];

/// LD (2000),A at 0150, and a loop after it.
const MAPS: &[u8] = &[0xEA, 0x00, 0x20, 0x18, 0xFE];

/// XOR A at 0150, LD (C000),A at 0151, INC A at 0154, LD (C000),A at 0155, and a loop after it.
const COUNTS: &[u8] = &[0xAF, 0xEA, 0x00, 0xC0, 0x3C, 0xEA, 0x00, 0xC0, 0x18, 0xFE];

/// XOR A at 0150, LD (C000),A at 0151, LD H,C0 at 0154, LD (HL),04 at 0156, and a loop after it.
const STORES: &[u8] = &[0xAF, 0xEA, 0x00, 0xC0, 0x26, 0xC0, 0x36, 0x04, 0x18, 0xFE];

/// AND F0 at 0150, and a loop after it.
const MASKS: &[u8] = &[0xE6, 0xF0, 0x18, 0xFE];

/// CALL 0156 at 0150, a loop at 0153, LD (C000),A at 0156, and RET at 0159.
const CALLS: &[u8] = &[0xCD, 0x56, 0x01, 0x18, 0xFE, 0x00, 0xEA, 0x00, 0xC0, 0xC9];

/// C000 holds 00.
const A_ZERO: &[u8] = &[0x00, 0xC0, 0x00, 0xC0, 0x01, 0x00, 0x00, 0x00];

/// Nothing is on the stack, known together, claimed for the whole program or of a cell.
const EMPTY: WholeState = WholeState {
    changes: &[],
    items: 0,
    held: &[0, 0, 0],
};

/// Fact 0 is claimed.
const CLAIMS: WholeState = WholeState {
    held: &[0, 2, 1, 0, 0, 0],
    ..EMPTY
};

/// The word 0153 is on the stack, by which the procedure returns.
const CALLED: WholeState = WholeState {
    items: 2,
    held: &[0x01, 0x01, 0x0A, 0x53, 0x53, 0x0B, 0, 0, 0],
    ..EMPTY
};

/// Main, which needs two bytes.
const MAIN: WholeProcedure = WholeProcedure {
    entry: 0,
    base: 0xFFFE,
    need: 2,
    ranges: &[0],
    kept: &[0],
    exit: None,
};

/// A callee that may write C000 and keeps it: its exit has the byte that was there.
const KEEPS: WholeProcedure = WholeProcedure {
    entry: 4,
    base: 0,
    need: 2,
    ranges: &[1, 0x00, 0xC0, 0x00, 0xC0],
    kept: &[1, 0x00, 0xC0],
    exit: Some(WholeState {
        held: &[0, 0, 1, 0x00, 0xC0, 0x00, 0xFF, 0x0C],
        ..EMPTY
    }),
};

/// The first nodes of main.
const AT_0100: WholeNode = WholeNode {
    procedure: 0,
    address: 0x0100,
    state: EMPTY,
};

const AT_0101: WholeNode = WholeNode {
    address: 0x0101,
    ..AT_0100
};

const AT_0150: WholeNode = WholeNode {
    address: 0x0150,
    ..AT_0100
};

/// A is 00 and no copy, Z is set, and N, H and C are clear.
const A_IS_0: Changes = &[(14, 0x87), (15, 0), (19, 0), (20, 0), (21, 0)];

/// A is 01 and no copy, and all flags are clear.
const A_IS_1: Changes = &[(14, 0x0F), (15, 0), (19, 1), (20, 1), (21, 0)];

/// L is 00 to 4F and no copy.
const WIDE: Changes = &[(37, 0), (38, 0x4F), (39, 0)];

/// The same after XOR A.
const CLEARED: Changes = &[
    (14, 0x87),
    (15, 0),
    (19, 0),
    (20, 0),
    (21, 0),
    (37, 0),
    (38, 0x4F),
    (39, 0),
];

/// The same after LD H,C0.
const POINTED: Changes = &[
    (14, 0x87),
    (15, 0),
    (19, 0),
    (20, 0),
    (21, 0),
    (34, 0xC0),
    (35, 0xC0),
    (36, 0),
    (37, 0),
    (38, 0x4F),
    (39, 0),
];

/// The loop of `SETS_H`: H is C0 and no copy.
const H_SET: WholeState = WholeState {
    changes: &[(34, 0xC0), (35, 0xC0), (36, 0)],
    ..EMPTY
};

const AT_0152: WholeNode = WholeNode {
    address: 0x0152,
    ..AT_0100
};

/// The loop of `MAPS`: the bank isn't kept, the controller's other registers are.
const MAPPED: WholeState = WholeState {
    changes: &[(13, 0x1E)],
    ..EMPTY
};

const AT_0153: WholeNode = WholeNode {
    address: 0x0153,
    ..AT_0100
};

/// How to fix what isn't in the bounds of a fact or a fill.
const BOUND_IT: &str =
    "Write the byte on every path to here, and bound it first: `and $07`, or `cp 8` / `ret nc`. By hand, widen the fact or the fill, or claim less here.";

/// How to fix a variable that isn't the mapped bank, and a bank that isn't kept.
const MAP_IT: &str =
    "Wherever you map a bank, write the variable first, then $2000, and before you return, map the old bank again. By hand, claim less here.";

/// How to fix a byte that isn't left as it was.
const RESTORE_IT: &str =
    "Save the byte first, and write it back before the return: `ldh a, [hBank]` / `push af`, at the end `pop af` / `ldh [hBank], a`.";

/// How to fix any other state.
const WIDEN_IT: &str =
    "Make a new certificate with certify. By hand, add a node there, or widen the nearest one.";

/// A cartridge, a certificate, the node that is refused, the reason, what is printed that the certificate lacks, and the fix.
struct WholeExample {
    sizes: Sizes,
    program: &'static [u8],
    facts: &'static [u8],
    procedures: &'static [WholeProcedure],
    nodes: &'static [WholeNode],
    node: u32,
    reason: Reason,
    text: &'static str,
    fix: &'static str,
}

/// Main alone, whose node at 0150 is refused.
const OF_MAIN: WholeExample = WholeExample {
    sizes: PLAIN,
    program: SETS_H,
    facts: &[],
    procedures: &[MAIN],
    nodes: &[],
    node: 2,
    reason: Reason::Uncovered,
    text: "",
    fix: BOUND_IT,
};

/// The nodes of `COUNTS`, which claim that C000 is 00 from where it is cleared.
const COUNTED: &[WholeNode] = &[
    AT_0100,
    AT_0101,
    AT_0150,
    WholeNode {
        address: 0x0151,
        state: WholeState {
            changes: A_IS_0,
            ..EMPTY
        },
        ..AT_0100
    },
    WholeNode {
        address: 0x0154,
        state: WholeState {
            changes: A_IS_0,
            ..CLAIMS
        },
        ..AT_0100
    },
    WholeNode {
        address: 0x0155,
        state: WholeState {
            changes: A_IS_1,
            ..CLAIMS
        },
        ..AT_0100
    },
    WholeNode {
        address: 0x0158,
        state: WholeState {
            changes: A_IS_1,
            ..CLAIMS
        },
        ..AT_0100
    },
];

/// The nodes of `STORES`, likewise.
const STORED: &[WholeNode] = &[
    AT_0100,
    AT_0101,
    WholeNode {
        state: WholeState {
            changes: WIDE,
            ..EMPTY
        },
        ..AT_0150
    },
    WholeNode {
        address: 0x0151,
        state: WholeState {
            changes: CLEARED,
            ..EMPTY
        },
        ..AT_0100
    },
    WholeNode {
        address: 0x0154,
        state: WholeState {
            changes: CLEARED,
            ..CLAIMS
        },
        ..AT_0100
    },
    WholeNode {
        address: 0x0156,
        state: WholeState {
            changes: POINTED,
            ..CLAIMS
        },
        ..AT_0100
    },
    WholeNode {
        address: 0x0158,
        state: WholeState {
            changes: POINTED,
            ..CLAIMS
        },
        ..AT_0100
    },
];

/// Facts, fills, low bits and kept bytes.
const BYTES: &[WholeExample] = &[
    // The cell that the store makes goes, and its 01 isn't fact 0's 00.
    WholeExample {
        program: COUNTS,
        facts: A_ZERO,
        nodes: COUNTED,
        node: 5,
        text: "  The program goes on at $0158. Node 6 is nearest, but differs:\n    byte $C000 of fact 0: $01; node 6 has $00\n  This store may put $01 at $C000, and fact 0 allows $00 there",
        ..OF_MAIN
    },
    // A store to several addresses makes no cell. Fact 0 no longer holds.
    WholeExample {
        program: STORES,
        facts: A_ZERO,
        nodes: STORED,
        node: 5,
        text: "  The program goes on at $0158. Node 6 is nearest, but differs:\n    byte $C000 of fact 0: $00..$FF; node 6 has $00\n  This store may put $04 at $C000-$C04F, and fact 0 allows $00 there",
        ..OF_MAIN
    },
    // C000 and C001 are 00.
    WholeExample {
        nodes: &[
            AT_0100,
            AT_0101,
            AT_0150,
            WholeNode {
                state: WholeState {
                    held: &[0, 2, 0, 0, 1, 0x00, 0xC0, 0x01, 0xC0, 0, 0x00, 0x00, 0],
                    ..H_SET
                },
                ..AT_0152
            },
        ],
        text: "  The program goes on at $0152. Node 3 is nearest, but differs:\n    byte $C000 of the fill $C000-$C001: $00..$FF; node 3 has $00",
        ..OF_MAIN
    },
    // HL is C04D, so bytes below HL+1 are some of those.
    WholeExample {
        nodes: &[
            AT_0100,
            AT_0101,
            AT_0150,
            WholeNode {
                state: WholeState {
                    held: &[
                        0, 2, 0, 0, 1, 0x00, 0xC0, 0xFF, 0xC0, 3, 1, 0, 0x00, 0x00, 0,
                    ],
                    ..H_SET
                },
                ..AT_0152
            },
        ],
        text: "  The program goes on at $0152. Node 3 is nearest, but differs:\n    byte $C000 of the fill $C000-$C0FF below HL+1: $00..$FF; node 3 has $00",
        ..OF_MAIN
    },
    // DE is 00D8, so all of them are above DE-1.
    WholeExample {
        nodes: &[
            AT_0100,
            AT_0101,
            AT_0150,
            WholeNode {
                state: WholeState {
                    held: &[
                        0, 2, 0, 0, 1, 0x00, 0xC0, 0xFF, 0xC0, 6, 0xFF, 0xFF, 0x00, 0x7F, 0,
                    ],
                    ..H_SET
                },
                ..AT_0152
            },
        ],
        text: "  The program goes on at $0152. Node 3 is nearest, but differs:\n    byte $C000 of the fill $C000-$C0FF above DE-1: $00..$FF; node 3 has $00..$7F",
        ..OF_MAIN
    },
    // A has any value before AND F0. Its low four bits are clear after it, and five of them aren't.
    WholeExample {
        program: MASKS,
        nodes: &[
            AT_0100,
            AT_0101,
            WholeNode {
                state: WholeState {
                    changes: &[(19, 0), (20, 0xFF), (21, 0)],
                    ..EMPTY
                },
                ..AT_0150
            },
            WholeNode {
                state: WholeState {
                    changes: &[(14, 0xAD), (15, 0), (19, 0), (20, 0xE0), (21, 0xA0)],
                    ..EMPTY
                },
                ..AT_0152
            },
        ],
        text: "  The program goes on at $0152. Node 3 is nearest, but differs:\n    A: $00..$F0 step 16; node 3 has $00..$E0 step 32",
        fix: WIDEN_IT,
        ..OF_MAIN
    },
    // A byte that is written isn't the one that was there.
    WholeExample {
        program: CALLS,
        procedures: &[MAIN, KEEPS],
        nodes: &[
            AT_0100,
            AT_0101,
            AT_0150,
            AT_0153,
            WholeNode {
                procedure: 1,
                address: 0x0156,
                state: CALLED,
            },
            WholeNode {
                procedure: 1,
                address: 0x0159,
                state: CALLED,
            },
        ],
        node: 5,
        reason: Reason::Return,
        text: "  Procedure 1 returns, but its exit differs:\n    byte $C000: $00..$FF (not a copy); the exit has $00..$FF (byte $C000 at entry)",
        fix: RESTORE_IT,
        ..OF_MAIN
    },
];

/// The controller's registers after the bank is mapped.
const BANKS: &[WholeExample] = &[
    // A is a place of the first window, and C000 isn't.
    WholeExample {
        sizes: MBC1,
        program: MAPS,
        nodes: &[
            AT_0100,
            AT_0101,
            AT_0150,
            WholeNode {
                state: WholeState {
                    held: &[0, 1, 0x81, 0x00, 0xC0, 0, 0],
                    ..MAPPED
                },
                ..AT_0153
            },
        ],
        text: "  The program goes on at $0153. Node 3 is nearest, but differs:\n    byte $C000: not known to be the mapped bank; node 3 has the mapped bank",
        fix: MAP_IT,
        ..OF_MAIN
    },
    // The bank isn't kept.
    WholeExample {
        sizes: MBC1,
        program: MAPS,
        nodes: &[
            AT_0100,
            AT_0101,
            AT_0150,
            WholeNode {
                state: WholeState {
                    changes: &[],
                    held: &[0, 1, 0x01, 0, 0],
                    ..MAPPED
                },
                ..AT_0153
            },
        ],
        text: "  The program goes on at $0153. Node 3 is nearest, but differs:\n    controller: kept except bank; node 3 has kept",
        fix: MAP_IT,
        ..OF_MAIN
    },
    // C is 13. Its bit 0 is 1, and the bank's bit 8 is 0.
    WholeExample {
        sizes: MBC5,
        program: MAPS,
        nodes: &[
            AT_0100,
            AT_0101,
            AT_0150,
            WholeNode {
                state: WholeState {
                    held: &[0, 1, 0, 0x04, 0],
                    ..MAPPED
                },
                ..AT_0153
            },
        ],
        text: "  The program goes on at $0153. Node 3 is nearest, but differs:\n    C: not known to be bit 8 of the mapped bank; node 3 has bit 8 of the mapped bank",
        fix: MAP_IT,
        ..OF_MAIN
    },
    // Its two low bits are 3, and MBC1's second register is 0.
    WholeExample {
        sizes: MBC1,
        program: MAPS,
        nodes: &[
            AT_0100,
            AT_0101,
            AT_0150,
            WholeNode {
                state: WholeState {
                    held: &[0, 1, 0, 0x04, 0],
                    ..MAPPED
                },
                ..AT_0153
            },
        ],
        text: "  The program goes on at $0153. Node 3 is nearest, but differs:\n    C: not known to be the second bank register; node 3 has the second bank register",
        fix: MAP_IT,
        ..OF_MAIN
    },
];

/// HL + B is from C050 to C120, and both may be any.
const LINKED: WholeState = WholeState {
    changes: &[
        (22, 0),
        (23, 0xFF),
        (24, 0),
        (34, 0),
        (35, 0xFF),
        (36, 0),
        (37, 0),
        (38, 0xFF),
        (39, 0),
    ],
    held: &[
        0x40, 0, 0x00, 0x00, 0xFF, 0xFF, 0x82, 0x01, 0x50, 0xC0, 0xD0, 0x00, 0,
    ],
    ..EMPTY
};

/// What is known together.
const RELATED: &[WholeExample] = &[
    // HL is C04D, and B is 00.
    WholeExample {
        nodes: &[
            AT_0100,
            AT_0101,
            AT_0150,
            WholeNode {
                state: LINKED,
                ..AT_0152
            },
        ],
        text: "  The program goes on at $0152. Node 3 is nearest, but differs:\n    known together: HL $C04D; node 3 has HL + $0001 * B = $C050 to $C120",
        fix: WIDEN_IT,
        ..OF_MAIN
    },
];

/// Whether a certificate is refused so, and this is printed of what it lacks, with this fix.
fn agrees(alloc: Global, example: &WholeExample) -> Result<bool, Fail> {
    let cert = whole_certificate(example.facts, example.procedures, example.nodes);
    let rom = small(example.sizes, example.program);
    let told = explain(alloc, &rom, cert.as_slice()).ok_or("a refusal")?;
    let gaps = told.gaps.ok_or("gaps")?;
    let shown = format!(in alloc; "{gaps}")?;
    let whole = format!(in alloc; "{told}")?;
    let is_refused_so = told.node == example.node && told.reason == example.reason;
    Ok(is_refused_so && shown.as_str() == example.text && whole.contains(example.fix))
}

#[test]
fn what_a_certificate_of_version_4_lacks(rt: HostRuntime) -> Result<(), Fail> {
    for examples in [BYTES, BANKS, RELATED] {
        for (i, example) in examples.iter().enumerate() {
            assert!(rt; agrees(rt.alloc(), example)?, "example {i}");
        }
    }
    Ok(())
}

/// Two facts: C000 holds 00, and C100, C104 .. C13C hold 00, 04 or 08.
const FACTS: &[u8] = &[
    0x00, 0xC0, 0x00, 0xC0, 0x01, 0x00, 0x00, 0x00, 0x00, 0xC1, 0x3C, 0xC1, 0x04, 0x00, 0x08, 0x02,
];

/// A is 10 or 18, A and C003 hold the mapped bank, fact 0 holds, and C200 to C2FF are 05 below HL. The second bank register isn't
/// kept.
const LISTED: WholeState = WholeState {
    changes: &[(13, 0x1D), (19, 0x10), (20, 0x18), (21, 0x60)],
    items: 0,
    held: &[
        0, 3, 0x81, 0x03, 0xC0, 0, 1, 0, 1, 0x00, 0xC2, 0xFF, 0xC2, 3, 0, 0, 0x05, 0x05, 0,
    ],
};

/// The symbols of bytes in RAM.
const SYMBOLS: &[u8] = b"00:C000 wState\n00:C001 wFirst\n00:C003 wBank\n00:C100 wActors\n";

/// The listing.
const LINES: &str =
    "stack FF80-FFFD, procedures 2, nodes 2\nfact 0: $C000 = $00 (wState)\nfact 1: $C100-$C13C step 4 = $00..$08 step 4 (wActors)\n\nprocedure 0: 2 bytes of stack, does not return, writes any RAM\n    00:0100  NOP\n        A=01 B=00 C=13 D=00 E=D8 H=01 L=4D Z=1 C=1; interrupts off, IE=00, bank 01, cartridge RAM disabled, bytes 0\n\nprocedure 1: 2 bytes of stack, does not return, writes no RAM\n    keeps wFirst ($C001), wBank ($C003)\n    00:0156  NOP\n        A=10..18 step 8 B=00 C=13 D=00 E=D8 H=01 L=4D Z=1 C=1; interrupts off, IE=00, bank 01, cartridge RAM disabled, bytes 0\n        facts 1; $C200-$C2FF below HL = $05; A = $C003 = the mapped bank\n        controller kept except second bank register\n";

/// A certificate with all of that.
fn listed() -> Spelled {
    let keeps = WholeProcedure {
        entry: 1,
        ranges: &[0],
        kept: &[2, 0x01, 0xC0, 0x03, 0xC0],
        exit: None,
        ..KEEPS
    };
    let last = WholeNode {
        procedure: 1,
        address: 0x0156,
        state: LISTED,
    };
    whole_certificate(FACTS, &[MAIN, keeps], &[AT_0100, last])
}

#[test]
fn what_a_certificate_of_version_4_claims_is_listed(rt: HostRuntime) -> Result<(), Fail> {
    let spelled = listed();
    let bytes = small(MBC1, &[]);
    let rom = Rom::parse(&bytes).ok().ok_or("a cartridge")?;
    let cert = Cert::parse(rt.alloc(), spelled.as_slice())
        .ok()
        .ok_or("a certificate")?;
    let symbols = Symbols::parse(rt.alloc(), SYMBOLS).ok().ok_or("symbols")?;
    let listing = Listing {
        rom: &rom,
        cert: &cert,
        symbols: &symbols,
    };
    let shown = format!(in rt.alloc(); "{listing}")?;
    assert!(rt; shown.as_str() == LINES, "{shown}");
    Ok(())
}

/// A callee at 0156 that keeps C000 and gives it back.
fn keeping() -> Spelled {
    let keeps = WholeProcedure { entry: 1, ..KEEPS };
    let last = WholeNode {
        procedure: 1,
        address: 0x0156,
        state: EMPTY,
    };
    whole_certificate(&[], &[MAIN, keeps], &[AT_0100, last])
}

#[test]
fn bytes_that_are_given_back_are_on_the_page(rt: HostRuntime) -> Result<(), Fail> {
    let spelled = keeping();
    let bytes = small(MBC1, &[]);
    let rom = Rom::parse(&bytes).ok().ok_or("a cartridge")?;
    let cert = Cert::parse(rt.alloc(), spelled.as_slice())
        .ok()
        .ok_or("a certificate")?;
    let symbols = Symbols::parse(rt.alloc(), SYMBOLS).ok().ok_or("symbols")?;
    let page = page_of(rt.alloc(), &rom, &cert, &symbols, Extras::none())?;
    assert!(rt; page.contains("<code>$C000</code> wState</dd>"), "{page}");
    // Main may write what it likes.
    assert!(rt;
        page.contains("<dt>can write</dt><dd>all RAM</dd>"),
        "{page}"
    );
    let json = facts_json(rt.alloc(), &rom, &cert, &symbols, Extras::none())?;
    assert!(rt; json.contains("\"bytes\":[49152]"), "{json}");
    Ok(())
}
