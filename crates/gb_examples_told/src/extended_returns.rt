//! What stops returns and interrupts in version 3.

use crate::extended_pieces::{
    A_IS_2, A_PAGE, AT_0100, AT_0101, AT_0150, BEFORE_INTERRUPTS, BEHIND, BYTE, BYTES, CALLED,
    CALLEE, CALLS_WITH_INTERRUPTS, EMPTY, ENABLED, ENABLES, HANDLED, HANDLER, HOLDS_0153,
    HOLDS_0154, INTERRUPTED, MAIN, MAY_ENABLE, NODES, PUSHED, PUSHES, PieceExample, STAYS,
    WITH_HANDLER, WITH_INTERRUPTS,
};
use crate::spelled::{ExtendedNode, ExtendedProcedure, ExtendedState};
use gb_abs::reason::Reason;

/// Where a word leads, and where main begins anew.
pub const RETURNS: &[PieceExample] = &[
    // PUSH HL and RET: HL is 014D.
    PieceExample {
        program: &[0xE5, 0xC9],
        procedures: &[ExtendedProcedure { need: 2, ..MAIN }],
        nodes: &[
            AT_0100,
            AT_0101,
            AT_0150,
            ExtendedNode {
                state: ExtendedState {
                    items: 2,
                    held: &[0x01, 0x01, 0x07, 0x4D, 0x4D, 0x08, 0, 0],
                    ..EMPTY
                },
                ..PUSHED
            },
        ],
        node: 3,
        reason: Reason::Uncovered,
        text: "  The program goes on at $014D, and procedure 0 has no node there",
    },
    // The low byte is no copy of the return word's.
    PieceExample {
        program: PUSHES,
        procedures: &[ExtendedProcedure { need: 4, ..MAIN }, CALLEE],
        nodes: &[
            AT_0100,
            AT_0101,
            AT_0150,
            PUSHED,
            BEHIND,
            ExtendedNode {
                state: ExtendedState {
                    held: &[0x01, 0x01, 0x0A, 0x50, 0x5F, 0x00, 0, 0],
                    ..HOLDS_0154
                },
                ..CALLED
            },
        ],
        node: 5,
        reason: Reason::Return,
        text: "  The address that is popped is neither the return address nor known: high byte $01 (high byte of the return address), low byte $50..$5F (not a copy)",
    },
    // DEC SP twice, and RET in main.
    PieceExample {
        program: &[0x3B, 0x3B, 0xC9],
        procedures: &[ExtendedProcedure { need: 2, ..MAIN }],
        nodes: &[
            AT_0100,
            AT_0101,
            AT_0150,
            ExtendedNode {
                state: ExtendedState {
                    items: 1,
                    held: BYTE,
                    ..EMPTY
                },
                ..PUSHED
            },
            ExtendedNode {
                address: 0x0152,
                state: ExtendedState {
                    items: 2,
                    held: BYTES,
                    ..EMPTY
                },
                ..AT_0100
            },
        ],
        node: 4,
        reason: Reason::Return,
        text: "  Nothing called main, and the address that it pops is unknown: high byte $00..$FF (not a copy), low byte $00..$FF (not a copy)",
    },
    // DEC SP once.
    PieceExample {
        program: &[0x3B, 0xC9],
        procedures: &[ExtendedProcedure { need: 1, ..MAIN }],
        nodes: &[
            AT_0100,
            AT_0101,
            AT_0150,
            ExtendedNode {
                state: ExtendedState {
                    items: 1,
                    held: BYTE,
                    ..EMPTY
                },
                ..PUSHED
            },
        ],
        node: 3,
        reason: Reason::Return,
        text: "  1 byte is on the stack, and a return pops 2",
    },
    PieceExample {
        program: &[0xC9],
        procedures: &[MAIN],
        nodes: &[
            AT_0100,
            AT_0101,
            ExtendedNode {
                state: ExtendedState {
                    changes: &[(2, 0)],
                    ..EMPTY
                },
                ..AT_0150
            },
        ],
        node: 2,
        reason: Reason::Return,
        text: "  SP isn't set",
    },
    PieceExample {
        program: PUSHES,
        procedures: &[ExtendedProcedure { need: 4, ..MAIN }, STAYS],
        nodes: NODES,
        node: 5,
        reason: Reason::Return,
        text: "  By the certificate, procedure 1 doesn't return",
    },
    // The callee takes C over too, which its exit hasn't.
    PieceExample {
        program: PUSHES,
        procedures: &[ExtendedProcedure { need: 4, ..MAIN }, CALLEE],
        nodes: &[
            AT_0100,
            AT_0101,
            AT_0150,
            PUSHED,
            ExtendedNode {
                state: ExtendedState {
                    items: 1,
                    held: &[0x00, 0x00, 0x03, 0, 0],
                    ..EMPTY
                },
                ..BEHIND
            },
            ExtendedNode {
                state: ExtendedState {
                    items: 3,
                    held: &[0x13, 0x13, 0x00, 0x01, 0x01, 0x0A, 0x54, 0x54, 0x0B, 0, 0],
                    ..EMPTY
                },
                ..CALLED
            },
        ],
        node: 5,
        reason: Reason::Return,
        text: "  Procedure 1 returns, but its exit differs:\n    bytes on the stack: 1; the exit has 0",
    },
    // LD SP,FFFE in the callee.
    PieceExample {
        program: &[
            0xC5, 0xCD, 0x56, 0x01, 0x18, 0xFE, 0x31, 0xFE, 0xFF, 0x18, 0xFE,
        ],
        procedures: &[ExtendedProcedure { need: 4, ..MAIN }, STAYS],
        nodes: NODES,
        node: 5,
        reason: Reason::Uncovered,
        text: "  Main starts again at $0159, and has no node there",
    },
    // Nothing is a copy then, and A is said to be one.
    PieceExample {
        program: &[
            0xC5, 0xCD, 0x56, 0x01, 0x18, 0xFE, 0x31, 0xFE, 0xFF, 0x18, 0xFE,
        ],
        procedures: &[
            ExtendedProcedure { need: 4, ..MAIN },
            ExtendedProcedure { entry: 6, ..STAYS },
        ],
        nodes: &[
            AT_0100,
            AT_0101,
            AT_0150,
            PUSHED,
            BEHIND,
            ExtendedNode {
                address: 0x0159,
                state: ExtendedState {
                    changes: &[
                        (13, 0),
                        (15, 0),
                        (18, 0),
                        (24, 0),
                        (27, 0),
                        (30, 0),
                        (33, 0),
                        (36, 0),
                        (39, 0),
                    ],
                    ..EMPTY
                },
                ..AT_0100
            },
            CALLED,
        ],
        node: 6,
        reason: Reason::Uncovered,
        text: "  Main starts again at $0159. Node 5 is nearest, but differs:\n    A: $01 (not a copy); node 5 has $01 (A at entry)",
    },
];

/// What an interrupt meets.
pub const INTERRUPTS: &[PieceExample] = &[
    PieceExample {
        program: ENABLES,
        procedures: &[ExtendedProcedure { need: 2, ..MAIN }],
        nodes: WITH_INTERRUPTS,
        node: 3,
        reason: Reason::Interrupt,
        text: "  VBlank ($40) can fire here:\n  No procedure but main begins at $0040\n  Procedure 0 could go on there itself, and doesn't cover this state: it has no node there",
    },
    // LD A,02 and LDH (FF),A before EI: interrupt 1 alone may come.
    PieceExample {
        program: &[0x3E, 0x02, 0xE0, 0xFF, 0xFB, 0x18, 0xFE],
        procedures: &[ExtendedProcedure { need: 2, ..MAIN }],
        nodes: &[
            AT_0100,
            AT_0101,
            AT_0150,
            ExtendedNode {
                address: 0x0152,
                state: ExtendedState {
                    changes: A_IS_2,
                    ..EMPTY
                },
                ..AT_0100
            },
            ExtendedNode {
                address: 0x0154,
                state: ExtendedState {
                    changes: &[(16, 2), (17, 2), (18, 0), (19, 2), (20, 2), (21, 0)],
                    ..EMPTY
                },
                ..AT_0100
            },
            ExtendedNode {
                address: 0x0155,
                state: ExtendedState {
                    changes: &[(0, 6), (16, 2), (17, 2), (18, 0), (19, 2), (20, 2), (21, 0)],
                    ..EMPTY
                },
                ..AT_0100
            },
        ],
        node: 5,
        reason: Reason::Interrupt,
        text: "  STAT ($48) can fire here:\n  No procedure but main begins at $0048\n  Procedure 0 could go on there itself, and doesn't cover this state: it has no node there",
    },
    PieceExample {
        program: ENABLES,
        procedures: &[MAIN],
        nodes: &[
            AT_0100,
            AT_0101,
            ExtendedNode {
                state: ExtendedState {
                    changes: &[(2, 0), (17, 1)],
                    ..EMPTY
                },
                ..AT_0150
            },
            ExtendedNode {
                state: ExtendedState {
                    changes: &[(0, 6), (2, 0), (17, 1)],
                    ..EMPTY
                },
                ..INTERRUPTED
            },
        ],
        node: 3,
        reason: Reason::Interrupt,
        text: "  VBlank ($40) can fire here:\n  SP isn't set",
    },
    // The handler leaves another A.
    PieceExample {
        program: ENABLES,
        procedures: &[
            ExtendedProcedure { need: 2, ..MAIN },
            ExtendedProcedure {
                exit: Some(ExtendedState {
                    changes: &[(0, 4), (17, 1), (19, 2), (20, 2), (21, 0)],
                    ..EMPTY
                }),
                ..HANDLER
            },
        ],
        nodes: WITH_HANDLER,
        node: 3,
        reason: Reason::Interrupt,
        text: "  VBlank ($40) can fire here:\n  After the handler, procedure 1, the program goes on at $0151. Node 3 is nearest, but differs:\n    A: $02 (not a copy); node 3 has $01 (A at entry)",
    },
    // A procedure without ranges is interrupted, and the handler has one.
    PieceExample {
        program: CALLS_WITH_INTERRUPTS,
        procedures: &[
            ExtendedProcedure { need: 4, ..MAIN },
            ExtendedProcedure {
                entry: 3,
                need: 4,
                ..STAYS
            },
            ExtendedProcedure {
                entry: 5,
                ranges: A_PAGE,
                ..HANDLER
            },
        ],
        nodes: &[
            AT_0100,
            AT_0101,
            ExtendedNode {
                address: 0x0150,
                ..BEFORE_INTERRUPTS
            },
            ExtendedNode {
                state: ExtendedState {
                    changes: MAY_ENABLE,
                    ..HOLDS_0153
                },
                ..CALLED
            },
            ExtendedNode {
                address: 0x0157,
                state: ExtendedState {
                    changes: ENABLED,
                    ..HOLDS_0153
                },
                ..CALLED
            },
            ExtendedNode {
                procedure: 2,
                ..HANDLED
            },
        ],
        node: 4,
        reason: Reason::Interrupt,
        text: "  VBlank ($40) can fire here:\n  Procedure 2 may write $C000-$C0FF, which is in no range of procedure 1",
    },
];
