//! What stops calls in version 3: too much on the stack, or nothing where they lead.

use crate::extended_pieces::{
    A_IS_2, A_PAGE, AT_0100, AT_0101, AT_0150, BEHIND, BYTE, CALLED, CALLED_ALONE, CALLEE, CALLS,
    EMPTY, ENABLES, FULL, HANDLER, HOLDS_0154, MAIN, NESTED, NODES, PUSHED, PUSHES, PieceExample,
    STAYS, TAKES_A_BYTE, WITH_HANDLER, WITH_INTERRUPTS,
};
use crate::spelled::{ExtendedNode, ExtendedProcedure, ExtendedState};
use gb_abs::reason::Reason;

/// What the stack holds.
pub const DEPTHS: &[PieceExample] = &[
    PieceExample {
        program: PUSHES,
        procedures: &[ExtendedProcedure { need: 1, ..MAIN }, CALLEE],
        nodes: NODES,
        node: 2,
        reason: Reason::Depth,
        text: "  2 bytes would be on the stack, and procedure 0 may use 1",
    },
    // DEC SP.
    PieceExample {
        program: TAKES_A_BYTE,
        procedures: &[MAIN],
        nodes: &[AT_0100, AT_0101, AT_0150],
        node: 2,
        reason: Reason::Depth,
        text: "  1 byte would be on the stack, and procedure 0 may use 0",
    },
    // ADD SP,-6.
    PieceExample {
        program: &[0xE8, 0xFA],
        procedures: &[ExtendedProcedure { need: 4, ..MAIN }],
        nodes: &[AT_0100, AT_0101, AT_0150],
        node: 2,
        reason: Reason::Depth,
        text: "  6 bytes would be on the stack, and procedure 0 may use 4",
    },
    // ADD SP,-1 above 255 bytes, in a procedure that nothing calls.
    PieceExample {
        program: &[0x18, 0xFE, 0xE8, 0xFF],
        procedures: &[
            MAIN,
            ExtendedProcedure {
                entry: 3,
                need: 256,
                ..STAYS
            },
        ],
        nodes: &[
            AT_0100,
            AT_0101,
            AT_0150,
            ExtendedNode {
                procedure: 1,
                address: 0x0152,
                state: ExtendedState {
                    items: 255,
                    held: FULL,
                    ..EMPTY
                },
            },
        ],
        node: 3,
        reason: Reason::Depth,
        text: "  256 bytes would be on the stack, and a node can have 255",
    },
    // CALL pushes two bytes in addition to the two that are held.
    PieceExample {
        program: PUSHES,
        procedures: &[ExtendedProcedure { need: 3, ..MAIN }, CALLEE],
        nodes: NODES,
        node: 3,
        reason: Reason::Depth,
        text: "  4 bytes would be on the stack, and procedure 0 may use 3",
    },
    // The callee takes these two over, and the others wait.
    PieceExample {
        program: PUSHES,
        procedures: &[
            ExtendedProcedure { need: 5, ..MAIN },
            ExtendedProcedure { need: 4, ..CALLEE },
        ],
        nodes: NODES,
        node: 3,
        reason: Reason::Depth,
        text: "  2 bytes wait, procedure 1 needs 4: 6 in all, and procedure 0 may use 5",
    },
    PieceExample {
        program: TAKES_A_BYTE,
        procedures: &[
            ExtendedProcedure { need: 3, ..MAIN },
            ExtendedProcedure {
                entry: 4,
                need: 3,
                ..CALLEE
            },
        ],
        nodes: &[
            AT_0100,
            AT_0101,
            AT_0150,
            ExtendedNode {
                state: ExtendedState {
                    items: 1,
                    held: BYTE,
                    ..EMPTY
                },
                ..PUSHED
            },
            CALLED,
        ],
        node: 3,
        reason: Reason::Depth,
        text: "  1 byte waits, procedure 1 needs 3: 4 in all, and procedure 0 may use 3",
    },
    // A dispatch pushes two bytes.
    PieceExample {
        program: ENABLES,
        procedures: &[ExtendedProcedure { need: 1, ..MAIN }],
        nodes: WITH_INTERRUPTS,
        node: 3,
        reason: Reason::Depth,
        text: "  VBlank ($40) can fire here:\n  2 bytes would be on the stack, and procedure 0 may use 1",
    },
    PieceExample {
        program: ENABLES,
        procedures: &[
            ExtendedProcedure { need: 2, ..MAIN },
            ExtendedProcedure { need: 3, ..HANDLER },
        ],
        nodes: WITH_HANDLER,
        node: 3,
        reason: Reason::Depth,
        text: "  VBlank ($40) can fire here:\n  0 bytes wait, procedure 1 needs 3: 3 in all, and procedure 0 may use 2",
    },
];

/// Where a call leads.
pub const CALLED_OR_INLINED: &[PieceExample] = &[
    PieceExample {
        program: PUSHES,
        procedures: &[ExtendedProcedure { need: 4, ..MAIN }],
        nodes: &[AT_0100, AT_0101, AT_0150, PUSHED, BEHIND],
        node: 3,
        reason: Reason::Uncovered,
        text: "  No procedure but main begins at $0156\n  Procedure 0 could go on there itself, and doesn't cover this state: it has no node there",
    },
    // Main has a node at 0156 with another return address.
    PieceExample {
        program: PUSHES,
        procedures: &[ExtendedProcedure { need: 4, ..MAIN }],
        nodes: &[
            AT_0100,
            AT_0101,
            AT_0150,
            PUSHED,
            BEHIND,
            ExtendedNode {
                address: 0x0156,
                state: ExtendedState {
                    items: 4,
                    held: &[
                        0x00, 0x00, 0x03, 0x13, 0x13, 0x04, 0x01, 0x01, 0x00, 0x55, 0x55, 0x00, 0,
                        0,
                    ],
                    ..EMPTY
                },
                ..AT_0100
            },
        ],
        node: 3,
        reason: Reason::Uncovered,
        text: "  No procedure but main begins at $0156\n  Procedure 0 could go on there itself, and doesn't cover this state. Node 5 is nearest, but differs:\n    stack byte 3: $54; node 5 has $55",
    },
    // It has one without the return address, and the callee expects another A.
    PieceExample {
        program: PUSHES,
        procedures: &[
            ExtendedProcedure { need: 4, ..MAIN },
            ExtendedProcedure { entry: 6, ..CALLEE },
        ],
        nodes: &[
            AT_0100,
            AT_0101,
            AT_0150,
            PUSHED,
            BEHIND,
            ExtendedNode {
                address: 0x0156,
                ..PUSHED
            },
            ExtendedNode {
                state: ExtendedState {
                    changes: A_IS_2,
                    ..HOLDS_0154
                },
                ..CALLED
            },
        ],
        node: 3,
        reason: Reason::Uncovered,
        text: "  Procedure 1 begins at $0156, but its first node differs:\n    A: $01; node 6 has $02\n  Procedure 0 could go on there itself, and doesn't cover this state. Node 5 is nearest, but differs:\n    bytes on the stack: 4; node 5 has 2",
    },
    // A byte waits, and the callee expects two more besides its return word.
    PieceExample {
        program: TAKES_A_BYTE,
        procedures: &[
            ExtendedProcedure { need: 3, ..MAIN },
            ExtendedProcedure { entry: 4, ..CALLEE },
        ],
        nodes: &[
            AT_0100,
            AT_0101,
            AT_0150,
            ExtendedNode {
                state: ExtendedState {
                    items: 1,
                    held: BYTE,
                    ..EMPTY
                },
                ..PUSHED
            },
            ExtendedNode {
                state: ExtendedState {
                    items: 4,
                    held: &[
                        0x00, 0xFF, 0x00, 0x00, 0xFF, 0x00, 0x01, 0x01, 0x0A, 0x54, 0x54, 0x0B, 0,
                        0,
                    ],
                    ..EMPTY
                },
                ..CALLED
            },
        ],
        node: 3,
        reason: Reason::Uncovered,
        text: "  Procedure 1 begins at $0156 and takes 4 bytes of its caller's stack, which has 3\n  Procedure 0 could go on there itself, and doesn't cover this state: it has no node there",
    },
    // Main's base is FFFE, so that the callee's would be FFFC.
    PieceExample {
        program: PUSHES,
        procedures: &[
            ExtendedProcedure { need: 4, ..MAIN },
            ExtendedProcedure {
                base: 0xFFFD,
                ..CALLEE
            },
        ],
        nodes: NODES,
        node: 3,
        reason: Reason::Uncovered,
        text: "  Procedure 1 begins at $0156 with base $FFFD, which isn't 2 bytes below its caller's base\n  Procedure 0 could go on there itself, and doesn't cover this state: it has no node there",
    },
    // Here nothing waits.
    PieceExample {
        program: CALLS,
        procedures: &[
            ExtendedProcedure { need: 4, ..MAIN },
            ExtendedProcedure {
                entry: 3,
                base: 0xFFFC,
                ..STAYS
            },
        ],
        nodes: &[AT_0100, AT_0101, AT_0150, CALLED_ALONE],
        node: 2,
        reason: Reason::Uncovered,
        text: "  Procedure 1 begins at $0156 with base $FFFC, which isn't its caller's base\n  Procedure 0 could go on there itself, and doesn't cover this state: it has no node there",
    },
    PieceExample {
        program: CALLS,
        procedures: &[
            ExtendedProcedure { need: 4, ..MAIN },
            ExtendedProcedure {
                entry: 3,
                need: 4,
                ..STAYS
            },
            ExtendedProcedure {
                entry: 4,
                base: 0xFFFC,
                ..STAYS
            },
        ],
        nodes: NESTED,
        node: 3,
        reason: Reason::Uncovered,
        text: "  Procedure 2 begins at $0160 with base $FFFC, and its caller's base is unknown\n  Procedure 1 could go on there itself, and doesn't cover this state: it has no node there",
    },
    // Two procedures begin there: one expects another A, and the other, which comes nearer, another base.
    PieceExample {
        program: PUSHES,
        procedures: &[
            ExtendedProcedure { need: 4, ..MAIN },
            CALLEE,
            ExtendedProcedure {
                entry: 6,
                base: 0xFFFD,
                ..CALLEE
            },
        ],
        nodes: &[
            AT_0100,
            AT_0101,
            AT_0150,
            PUSHED,
            BEHIND,
            ExtendedNode {
                state: ExtendedState {
                    changes: &[(19, 2), (20, 2), (21, 0), (22, 1), (23, 1)],
                    ..HOLDS_0154
                },
                ..CALLED
            },
            ExtendedNode {
                procedure: 2,
                ..CALLED
            },
        ],
        node: 3,
        reason: Reason::Uncovered,
        text: "  Procedure 2 begins at $0156 with base $FFFD, which isn't 2 bytes below its caller's base\n  Procedure 0 could go on there itself, and doesn't cover this state: it has no node there",
    },
    // The items that wait are said to be gone.
    PieceExample {
        program: PUSHES,
        procedures: &[ExtendedProcedure { need: 4, ..MAIN }, CALLEE],
        nodes: &[
            AT_0100,
            AT_0101,
            AT_0150,
            PUSHED,
            ExtendedNode {
                address: 0x0154,
                ..AT_0100
            },
            CALLED,
        ],
        node: 3,
        reason: Reason::Uncovered,
        text: "  After its call of procedure 1, the program goes on at $0154. Node 4 is nearest, but differs:\n    bytes on the stack: 2; node 4 has 0",
    },
    // Two bytes wait, and the callee gives back 255.
    PieceExample {
        program: PUSHES,
        procedures: &[
            ExtendedProcedure { need: 4, ..MAIN },
            ExtendedProcedure {
                exit: Some(ExtendedState {
                    items: 255,
                    held: FULL,
                    ..EMPTY
                }),
                ..CALLEE
            },
        ],
        nodes: NODES,
        node: 3,
        reason: Reason::Uncovered,
        text: "  After its call of procedure 1, the program goes on at $0154 with more than 255 bytes on the stack",
    },
    PieceExample {
        program: CALLS,
        procedures: &[
            ExtendedProcedure { need: 4, ..MAIN },
            ExtendedProcedure {
                entry: 3,
                need: 4,
                ..STAYS
            },
            ExtendedProcedure {
                entry: 4,
                ranges: A_PAGE,
                ..STAYS
            },
        ],
        nodes: NESTED,
        node: 3,
        reason: Reason::Callee,
        text: "  Procedure 2 may write $C000-$C0FF, which is in no range of procedure 1",
    },
];
