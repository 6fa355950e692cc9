//! What the examples of version 3 are put together from.

use crate::spelled::{Changes, ExtendedNode, ExtendedProcedure, ExtendedState};
use gb_abs::reason::Reason;

/// PUSH BC at 0150, CALL 0156 at 0151, a loop at 0154, and RET at 0156.
pub const PUSHES: &[u8] = &[0xC5, 0xCD, 0x56, 0x01, 0x18, 0xFE, 0xC9];

/// A call after DEC SP.
pub const TAKES_A_BYTE: &[u8] = &[0x3B, 0xCD, 0x56, 0x01, 0x18, 0xFE, 0xC9];

/// CALL 0156 at 0150, a loop at 0153, and CALL 0160 at 0156.
pub const CALLS: &[u8] = &[0xCD, 0x56, 0x01, 0x18, 0xFE, 0x00, 0xCD, 0x60, 0x01];

/// CALL 0156 at 0150, EI at 0156, and a loop after it.
pub const CALLS_WITH_INTERRUPTS: &[u8] = &[0xCD, 0x56, 0x01, 0x18, 0xFE, 0x00, 0xFB, 0x18, 0xFE];

/// EI at 0150, and a loop after it.
pub const ENABLES: &[u8] = &[0xFB, 0x18, 0xFE];

/// Nothing is known together, and of no cell.
pub const NO_ITEMS: &[u8] = &[0, 0];

/// The bytes that PUSH BC leaves, B and C as at entry.
pub const BC: &[u8] = &[0x00, 0x00, 0x03, 0x13, 0x13, 0x04, 0, 0];

/// A byte of any value.
pub const BYTE: &[u8] = &[0x00, 0xFF, 0x00, 0, 0];

/// Two of them.
pub const BYTES: &[u8] = &[0x00, 0xFF, 0x00, 0x00, 0xFF, 0x00, 0, 0];

/// 255 bytes, each of them 00.
pub const FULL: &[u8] = &[0; 767];

/// A is 02, and no copy.
pub const A_IS_2: Changes = &[(19, 2), (20, 2), (21, 0)];

/// IE may have bit 0.
pub const MAY_ENABLE: Changes = &[(17, 1)];

/// Interrupts are pending or on, and IE may have bit 0.
pub const ENABLED: Changes = &[(0, 6), (17, 1)];

/// No ranges.
pub const NOTHING: &[u8] = &[0];

/// C000 to C0FF.
pub const A_PAGE: &[u8] = &[1, 0x00, 0xC0, 0xFF, 0xC0];

/// Nothing is on the stack.
pub const EMPTY: ExtendedState = ExtendedState {
    changes: &[],
    items: 0,
    held: NO_ITEMS,
};

/// BC is on the stack.
pub const HOLDS_BC: ExtendedState = ExtendedState {
    items: 2,
    held: BC,
    ..EMPTY
};

/// The word 0154 is on the stack, by which the procedure returns.
pub const HOLDS_0154: ExtendedState = ExtendedState {
    items: 2,
    held: &[0x01, 0x01, 0x0A, 0x54, 0x54, 0x0B, 0, 0],
    ..EMPTY
};

/// A state with the return word 0153.
pub const HOLDS_0153: ExtendedState = ExtendedState {
    items: 2,
    held: &[0x01, 0x01, 0x0A, 0x53, 0x53, 0x0B, 0, 0],
    ..EMPTY
};

/// A state with any word on the stack, while IE may have bit 0.
pub const HANDLES: ExtendedState = ExtendedState {
    changes: MAY_ENABLE,
    items: 2,
    held: &[0x00, 0xFF, 0x0A, 0x00, 0xFF, 0x0B, 0, 0],
};

/// Main, which needs no byte.
pub const MAIN: ExtendedProcedure = ExtendedProcedure {
    entry: 0,
    base: 0xFFFE,
    need: 0,
    ranges: NOTHING,
    exit: None,
};

/// A callee whose base isn't known, which needs nothing, and returns as it began without its return word.
pub const CALLEE: ExtendedProcedure = ExtendedProcedure {
    entry: 5,
    base: 0,
    need: 0,
    ranges: NOTHING,
    exit: Some(EMPTY),
};

/// A callee that doesn't return.
pub const STAYS: ExtendedProcedure = ExtendedProcedure {
    exit: None,
    ..CALLEE
};

/// A handler, which leaves interrupts on.
pub const HANDLER: ExtendedProcedure = ExtendedProcedure {
    entry: 4,
    exit: Some(ExtendedState {
        changes: &[(0, 4), (17, 1)],
        ..EMPTY
    }),
    ..CALLEE
};

/// The nodes of main, by their addresses.
pub const AT_0100: ExtendedNode = ExtendedNode {
    procedure: 0,
    address: 0x0100,
    state: EMPTY,
};

pub const AT_0101: ExtendedNode = ExtendedNode {
    address: 0x0101,
    ..AT_0100
};

pub const AT_0150: ExtendedNode = ExtendedNode {
    address: 0x0150,
    ..AT_0100
};

/// CALL after PUSH BC.
pub const PUSHED: ExtendedNode = ExtendedNode {
    address: 0x0151,
    state: HOLDS_BC,
    ..AT_0100
};

/// The loop after that.
pub const BEHIND: ExtendedNode = ExtendedNode {
    address: 0x0154,
    ..PUSHED
};

/// EI in main.
pub const BEFORE_INTERRUPTS: ExtendedNode = ExtendedNode {
    address: 0x0150,
    state: ExtendedState {
        changes: MAY_ENABLE,
        ..EMPTY
    },
    ..AT_0100
};

/// The loop after it.
pub const INTERRUPTED: ExtendedNode = ExtendedNode {
    address: 0x0151,
    state: ExtendedState {
        changes: ENABLED,
        ..EMPTY
    },
    ..AT_0100
};

/// The callee's beginning, from where it returns to 0154.
pub const CALLED: ExtendedNode = ExtendedNode {
    procedure: 1,
    address: 0x0156,
    state: HOLDS_0154,
};

/// The callee alone, with the return word 0153.
pub const CALLED_ALONE: ExtendedNode = ExtendedNode {
    state: HOLDS_0153,
    ..CALLED
};

/// The beginning of the procedure that this one calls.
pub const CALLED_NEXT: ExtendedNode = ExtendedNode {
    procedure: 2,
    address: 0x0160,
    state: ExtendedState {
        items: 2,
        held: &[0x01, 0x01, 0x0A, 0x59, 0x59, 0x0B, 0, 0],
        ..EMPTY
    },
};

/// The beginning of the handler.
pub const HANDLED: ExtendedNode = ExtendedNode {
    procedure: 1,
    address: 0x0040,
    state: HANDLES,
};

/// The nodes of `PUSHES`.
pub const NODES: &[ExtendedNode] = &[AT_0100, AT_0101, AT_0150, PUSHED, BEHIND, CALLED];

/// The nodes of `CALLS`, where neither callee returns.
pub const NESTED: &[ExtendedNode] = &[AT_0100, AT_0101, AT_0150, CALLED_ALONE, CALLED_NEXT];

/// The nodes of `ENABLES`.
pub const WITH_INTERRUPTS: &[ExtendedNode] = &[AT_0100, AT_0101, BEFORE_INTERRUPTS, INTERRUPTED];

/// The nodes with a handler.
pub const WITH_HANDLER: &[ExtendedNode] = &[
    AT_0100,
    AT_0101,
    BEFORE_INTERRUPTS,
    INTERRUPTED,
    HANDLED,
];

/// A cartridge's program, a certificate, the node that is refused, the reason, and what is missing.
pub struct PieceExample {
    pub program: &'static [u8],
    pub procedures: &'static [ExtendedProcedure],
    pub nodes: &'static [ExtendedNode],
    pub node: u32,
    pub reason: Reason,
    pub text: &'static str,
}
