//! What certificates lack, worked by hand from the rules.

use crate::spelled::{EMPTY, Spelled, SpelledNode, SpelledProcedure, certificate};
use gb_abs::reason::Reason;
use gb_page::explain;
use gb_samples::cartridges::{PLAIN, small};
use std::alloc::Global;
use std::test::Fail;

/// PUSH BC at 0150, CALL 0156 at 0151, a loop at 0154, and RET at 0156.
const CALLS: &[u8] = &[0xC5, 0xCD, 0x56, 0x01, 0x18, 0xFE, 0xC9];

/// A call with PUSH BC before it, and PUSH BC in the callee too.
const PUSHES_TWICE: &[u8] = &[0xC5, 0xCD, 0x56, 0x01, 0x18, 0xFE, 0xC5, 0xC9];

/// The word that PUSH BC leaves, B and C as at entry, and no cells.
const BC: &[u8] = &[0x01, 0x00, 0x00, 0x03, 0x13, 0x13, 0x04, 0x00];

/// A is 02, and no copy.
const A_IS_2: &[(usize, u8)] = &[(19, 2), (20, 2), (21, 0)];

/// No ranges.
const NOTHING: &[u8] = &[0];

/// C000 to C0FF.
const A_PAGE: &[u8] = &[1, 0x00, 0xC0, 0xFF, 0xC0];

/// Main, which needs no words.
const MAIN: SpelledProcedure = SpelledProcedure {
    entry: 0,
    need: 0,
    ranges: NOTHING,
    exit: None,
};

/// The callee, which returns as it began.
const CALLEE: SpelledProcedure = SpelledProcedure {
    entry: 5,
    need: 0,
    ranges: NOTHING,
    exit: Some(&[]),
};

/// A node of main, at 0100.
const MAIN_NODE: SpelledNode = SpelledNode {
    procedure: 0,
    address: 0x0100,
    changes: &[],
    held: EMPTY,
};

/// A node of the callee, at 0156.
const CALLEE_NODE: SpelledNode = SpelledNode {
    procedure: 1,
    address: 0x0156,
    changes: &[],
    held: EMPTY,
};

/// A cartridge's program, a certificate, the node that is refused, the reason, and what is printed that the certificate lacks.
struct RefusalExample {
    program: &'static [u8],
    procedures: &'static [SpelledProcedure],
    nodes: &'static [SpelledNode],
    node: u32,
    reason: Reason,
    text: &'static str,
}

/// The nodes of `CALLS`. CALL's has a word, and so has the loop's.
const NODES: &[SpelledNode] = &[
    SpelledNode {
        address: 0x0100,
        ..MAIN_NODE
    },
    SpelledNode {
        address: 0x0101,
        ..MAIN_NODE
    },
    SpelledNode {
        address: 0x0150,
        ..MAIN_NODE
    },
    SpelledNode {
        address: 0x0151,
        held: BC,
        ..MAIN_NODE
    },
    SpelledNode {
        address: 0x0154,
        held: BC,
        ..MAIN_NODE
    },
    SpelledNode {
        address: 0x0156,
        ..CALLEE_NODE
    },
];

const EXAMPLES: &[RefusalExample] = &[
    // PUSH needs a word, and main has none.
    RefusalExample {
        program: CALLS,
        procedures: &[SpelledProcedure { need: 0, ..MAIN }, CALLEE],
        nodes: NODES,
        node: 2,
        reason: Reason::Depth,
        text: "  1 word would be on the stack, and procedure 0 may use 0",
    },
    // CALL needs one for the return address besides the one that is held.
    RefusalExample {
        program: CALLS,
        procedures: &[
            SpelledProcedure { need: 5, ..MAIN },
            SpelledProcedure { need: 4, ..CALLEE },
        ],
        nodes: NODES,
        node: 3,
        reason: Reason::Depth,
        text: "  1 word and the return address wait, procedure 1 needs 4: 6 in all, and procedure 0 may use 5",
    },
    // The callee changes A, so that main goes on with another one.
    RefusalExample {
        program: CALLS,
        procedures: &[
            SpelledProcedure { need: 2, ..MAIN },
            SpelledProcedure {
                exit: Some(A_IS_2),
                ..CALLEE
            },
        ],
        nodes: NODES,
        node: 3,
        reason: Reason::Uncovered,
        text: "  After its call of procedure 1, the program goes on at $0154. Node 4 is nearest, but differs:\n    A: $02 (not a copy); node 4 has $01 (A at entry)",
    },
    RefusalExample {
        program: CALLS,
        procedures: &[
            SpelledProcedure { need: 2, ..MAIN },
            SpelledProcedure { entry: 4, ..CALLEE },
        ],
        nodes: &[
            SpelledNode {
                address: 0x0100,
                ..MAIN_NODE
            },
            SpelledNode {
                address: 0x0101,
                ..MAIN_NODE
            },
            SpelledNode {
                address: 0x0150,
                ..MAIN_NODE
            },
            SpelledNode {
                address: 0x0151,
                held: BC,
                ..MAIN_NODE
            },
            SpelledNode {
                address: 0x0156,
                ..CALLEE_NODE
            },
        ],
        node: 3,
        reason: Reason::Uncovered,
        text: "  After its call of procedure 1, the program goes on at $0154, and procedure 0 has no node there",
    },
    // The callee isn't where CALL leads.
    RefusalExample {
        program: CALLS,
        procedures: &[SpelledProcedure { need: 2, ..MAIN }, CALLEE],
        nodes: &[
            SpelledNode {
                address: 0x0100,
                ..MAIN_NODE
            },
            SpelledNode {
                address: 0x0101,
                ..MAIN_NODE
            },
            SpelledNode {
                address: 0x0150,
                ..MAIN_NODE
            },
            SpelledNode {
                address: 0x0151,
                held: BC,
                ..MAIN_NODE
            },
            SpelledNode {
                address: 0x0154,
                held: BC,
                ..MAIN_NODE
            },
            SpelledNode {
                address: 0x0157,
                ..CALLEE_NODE
            },
        ],
        node: 3,
        reason: Reason::Callee,
        text: "  No procedure but main begins at $0156",
    },
    RefusalExample {
        program: CALLS,
        procedures: &[SpelledProcedure { need: 2, ..MAIN }, CALLEE],
        nodes: &[
            SpelledNode {
                address: 0x0100,
                ..MAIN_NODE
            },
            SpelledNode {
                address: 0x0101,
                ..MAIN_NODE
            },
            SpelledNode {
                address: 0x0150,
                ..MAIN_NODE
            },
            SpelledNode {
                address: 0x0151,
                held: BC,
                ..MAIN_NODE
            },
            SpelledNode {
                address: 0x0154,
                held: BC,
                ..MAIN_NODE
            },
            SpelledNode {
                address: 0x0156,
                changes: A_IS_2,
                ..CALLEE_NODE
            },
        ],
        node: 3,
        reason: Reason::Callee,
        text: "  Procedure 1 begins at $0156, but its first node differs:\n    A: $01; node 5 has $02",
    },
    RefusalExample {
        program: CALLS,
        procedures: &[
            SpelledProcedure { need: 2, ..MAIN },
            SpelledProcedure {
                ranges: A_PAGE,
                ..CALLEE
            },
        ],
        nodes: NODES,
        node: 3,
        reason: Reason::Callee,
        text: "  Procedure 1 may write $C000-$C0FF, which is in no range of procedure 0",
    },
    // RET in main.
    RefusalExample {
        program: &[0xC9],
        procedures: &[SpelledProcedure { need: 0, ..MAIN }],
        nodes: &[
            SpelledNode {
                address: 0x0100,
                ..MAIN_NODE
            },
            SpelledNode {
                address: 0x0101,
                ..MAIN_NODE
            },
            SpelledNode {
                address: 0x0150,
                ..MAIN_NODE
            },
        ],
        node: 2,
        reason: Reason::Return,
        text: "  This is main, and nothing called it",
    },
    RefusalExample {
        program: CALLS,
        procedures: &[
            SpelledProcedure { need: 2, ..MAIN },
            SpelledProcedure {
                exit: None,
                ..CALLEE
            },
        ],
        nodes: NODES,
        node: 5,
        reason: Reason::Return,
        text: "  By the certificate, procedure 1 doesn't return",
    },
    // The callee returns above what it has pushed.
    RefusalExample {
        program: PUSHES_TWICE,
        procedures: &[
            SpelledProcedure { need: 3, ..MAIN },
            SpelledProcedure { need: 1, ..CALLEE },
        ],
        nodes: &[
            SpelledNode {
                address: 0x0100,
                ..MAIN_NODE
            },
            SpelledNode {
                address: 0x0101,
                ..MAIN_NODE
            },
            SpelledNode {
                address: 0x0150,
                ..MAIN_NODE
            },
            SpelledNode {
                address: 0x0151,
                held: BC,
                ..MAIN_NODE
            },
            SpelledNode {
                address: 0x0154,
                held: BC,
                ..MAIN_NODE
            },
            SpelledNode {
                address: 0x0156,
                ..CALLEE_NODE
            },
            SpelledNode {
                address: 0x0157,
                held: BC,
                ..CALLEE_NODE
            },
        ],
        node: 6,
        reason: Reason::Return,
        text: "  1 word is still on the stack",
    },
    // Main expects the A that the exit promises, and the callee leaves its own.
    RefusalExample {
        program: CALLS,
        procedures: &[
            SpelledProcedure { need: 2, ..MAIN },
            SpelledProcedure {
                exit: Some(A_IS_2),
                ..CALLEE
            },
        ],
        nodes: &[
            SpelledNode {
                address: 0x0100,
                ..MAIN_NODE
            },
            SpelledNode {
                address: 0x0101,
                ..MAIN_NODE
            },
            SpelledNode {
                address: 0x0150,
                ..MAIN_NODE
            },
            SpelledNode {
                address: 0x0151,
                held: BC,
                ..MAIN_NODE
            },
            SpelledNode {
                address: 0x0154,
                held: BC,
                changes: A_IS_2,
                ..MAIN_NODE
            },
            SpelledNode {
                address: 0x0156,
                ..CALLEE_NODE
            },
        ],
        node: 5,
        reason: Reason::Return,
        text: "  Procedure 1 returns, but its exit differs:\n    A: $01; the exit has $02",
    },
    // INC A: A becomes 02, Z and H clear, and C stays. The first of two nodes has another IME too.
    RefusalExample {
        program: &[0x3C, 0x18, 0xFE],
        procedures: &[SpelledProcedure { need: 0, ..MAIN }],
        nodes: &[
            SpelledNode {
                address: 0x0100,
                ..MAIN_NODE
            },
            SpelledNode {
                address: 0x0101,
                ..MAIN_NODE
            },
            SpelledNode {
                address: 0x0150,
                ..MAIN_NODE
            },
            SpelledNode {
                address: 0x0151,
                changes: &[(0, 4)],
                ..MAIN_NODE
            },
            SpelledNode {
                address: 0x0151,
                ..MAIN_NODE
            },
        ],
        node: 2,
        reason: Reason::Uncovered,
        text: "  The program goes on at $0151. Node 4 is nearest, but differs:\n    A: $02 (not a copy); node 4 has $01 (A at entry)\n    flag Z: 0; node 4 has 1\n    flag H: 0; node 4 has 1\n    F: not kept; node 4 has kept",
    },
    // JR to a node all of whose other registers, and more, are other ones.
    RefusalExample {
        program: &[0x18, 0x00, 0x18, 0xFE],
        procedures: &[SpelledProcedure { need: 0, ..MAIN }],
        nodes: &[
            SpelledNode {
                address: 0x0100,
                ..MAIN_NODE
            },
            SpelledNode {
                address: 0x0101,
                ..MAIN_NODE
            },
            SpelledNode {
                address: 0x0150,
                ..MAIN_NODE
            },
            SpelledNode {
                address: 0x0152,
                changes: &[
                    (0, 6),
                    (3, 1),
                    (4, 0x10),
                    (5, 2),
                    (7, 3),
                    (9, 1),
                    (10, 2),
                    (11, 2),
                    (12, 2),
                    (16, 1),
                    (17, 0xFF),
                    (23, 5),
                    (22, 3),
                    (28, 1),
                    (29, 1),
                    (37, 0x4E),
                    (38, 0x4E),
                ],
                ..MAIN_NODE
            },
        ],
        node: 2,
        reason: Reason::Uncovered,
        text: "  The program goes on at $0152. Node 3 is nearest, but differs:\n    B: $00; node 3 has $03..$05\n    D: $00; node 3 has $01\n    L: $4D; node 3 has $4E\n    IE: $00; node 3 has $01..$FF\n    IME: off; node 3 has pending or on\n    bank: $01; node 3 has $02..$03\n    second bank register: $00; node 3 has $01..$02\n    cartridge RAM: disabled; node 3 has enabled\n    mode: 0; node 3 has 1\n    and 1 more difference",
    },
    // LDH (46),A starts an OAM transfer, which has 161 M-cycles left after it.
    RefusalExample {
        program: &[0xE0, 0x46, 0x18, 0xFE],
        procedures: &[SpelledProcedure { need: 0, ..MAIN }],
        nodes: &[
            SpelledNode {
                address: 0x0100,
                ..MAIN_NODE
            },
            SpelledNode {
                address: 0x0101,
                ..MAIN_NODE
            },
            SpelledNode {
                address: 0x0150,
                ..MAIN_NODE
            },
            SpelledNode {
                address: 0x0152,
                ..MAIN_NODE
            },
        ],
        node: 2,
        reason: Reason::Uncovered,
        text: "  The program goes on at $0152. Node 3 is nearest, but differs:\n    OAM DMA time: 161; node 3 has 0",
    },
];

/// Whether a certificate is refused at a node for a reason, and this is printed of what it lacks.
pub fn is_told(
    alloc: Global,
    program: &[u8],
    cert: &Spelled,
    node: u32,
    reason: Reason,
    text: &str,
) -> Result<bool, Fail> {
    let rom = small(PLAIN, program);
    let told = explain(alloc, &rom, cert.as_slice()).ok_or("a refusal")?;
    let gaps = told.gaps.ok_or("gaps")?;
    let shown = format!(in alloc; "{gaps}")?;
    Ok(told.node == node && told.reason == reason && shown.as_str() == text)
}

/// Whether what is printed of an example's files is what it says.
fn agrees(alloc: Global, example: &RefusalExample) -> Result<bool, Fail> {
    let cert = certificate(example.procedures, example.nodes);
    is_told(
        alloc,
        example.program,
        &cert,
        example.node,
        example.reason,
        example.text,
    )
}

#[test]
fn what_a_certificate_lacks(rt: HostRuntime) -> Result<(), Fail> {
    for example in EXAMPLES {
        assert!(rt; agrees(rt.alloc(), example)?);
    }
    Ok(())
}
