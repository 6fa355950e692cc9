//! The sides of conditional instructions.

use crate::effects::leaves_test;
use gb_abs_effects::transfer::untaken;
use gb_abs_effects::writes::AbsWrite;
use gb_domain::types::{Core, Flg};
use gb_ops::op::{AluOp, Condition, Op, Operand, Register};
use gb_product::sides::{sides_of, taken_side};
use gb_samples::relations::compared;
use gb_samples::states::{ANY, CLEAR, EITHER, SET, copy_of, entered, with_carry};
use gb_vals::branch::side;
use std::process::Abort;

const A: Operand = Operand::Register(Register::A);

/// An operation, and its test with the byte 7 and with A itself.
const LEFT: [(AluOp, Option<u8>, Option<u8>); 5] = [
    (AluOp::Cp, Some(7), None),
    (AluOp::And, None, Some(0)),
    (AluOp::Or, None, Some(0)),
    (AluOp::Sub, None, None),
    (AluOp::Xor, None, None),
];

/// CP with a byte leaves it as the test; AND and OR of A with itself leave 0.
#[test]
fn tests_are_left(rt: HostRuntime) {
    for (i, (op, of_byte, of_itself)) in LEFT.into_iter().enumerate() {
        assert!(rt;
            leaves_test(None, Op::AluImmediate(op, 7), of_byte),
            "row {i}"
        );
        assert!(rt; leaves_test(None, Op::Alu(op, A), of_itself), "row {i}");
    }
}

/// A test, a condition, A's bounds, and its bounds on that side, if it can be.
type Row = (u8, Condition, u8, u8, Option<(u8, u8)>);

const ROWS: [Row; 20] = [
    (0x10, Condition::Zero, 0x00, 0xFF, Some((0x10, 0x10))),
    (0x10, Condition::NotZero, 0x00, 0xFF, Some((0x00, 0xFF))),
    (0x10, Condition::Carry, 0x00, 0xFF, Some((0x00, 0x0F))),
    (0x10, Condition::NotCarry, 0x00, 0xFF, Some((0x10, 0xFF))),
    (0x10, Condition::NotZero, 0x10, 0x20, Some((0x11, 0x20))),
    (0x10, Condition::Carry, 0x10, 0x20, None),
    (0x10, Condition::NotCarry, 0x10, 0x20, Some((0x10, 0x20))),
    (0x20, Condition::NotZero, 0x10, 0x20, Some((0x10, 0x1F))),
    (0x20, Condition::Carry, 0x10, 0x20, Some((0x10, 0x1F))),
    (0x20, Condition::NotCarry, 0x10, 0x20, Some((0x20, 0x20))),
    (0x04, Condition::Zero, 0x00, 0x03, None),
    (0x04, Condition::Carry, 0x00, 0x03, Some((0x00, 0x03))),
    (0x04, Condition::NotCarry, 0x00, 0x03, None),
    (0x00, Condition::Carry, 0x00, 0xFF, None),
    (0x00, Condition::NotZero, 0x00, 0xFF, Some((0x01, 0xFF))),
    (0x00, Condition::NotCarry, 0x00, 0xFF, Some((0x00, 0xFF))),
    (0xFF, Condition::NotZero, 0x00, 0xFF, Some((0x00, 0xFE))),
    (0xFF, Condition::Zero, 0x00, 0xFF, Some((0xFF, 0xFF))),
    (0xFF, Condition::NotZero, 0xFF, 0xFF, None),
    (0xFF, Condition::NotCarry, 0xFF, 0xFF, Some((0xFF, 0xFF))),
];

/// A copy of A in these bounds, and any flags.
fn with_a(lo: u8, hi: u8) -> Core {
    let mut core = entered();
    core.registers.a = copy_of(Register::A, lo, hi);
    core.flags = with_carry(EITHER);
    core
}

#[test]
fn tests_narrow_a(rt: HostRuntime) {
    for (i, (n, condition, lo, hi, want)) in ROWS.into_iter().enumerate() {
        let core = with_a(lo, hi);
        let jump = Op::JumpRelativeIf(condition, 5);
        let taken = taken_side(jump, ANY, &core, &compared(Some(n)));
        let narrowed = taken.map(|side| side.core.registers.a);
        let want = want.map(|(lo, hi)| copy_of(Register::A, lo, hi));
        assert!(rt; narrowed == want, "row {i}");
    }
}

#[test]
fn a_flag_is_known_on_its_side(rt: HostRuntime) {
    let flags = with_carry(SET);
    assert!(rt; side(Condition::NotCarry, flags) == None);
    assert!(rt; side(Condition::Carry, flags) == Some(flags));
    let zero = Flg { zero: SET, ..flags };
    assert!(rt; side(Condition::Zero, flags) == Some(zero));
}

/// The core with other bounds of A and other flags.
fn narrowed(core: Core, lo: u8, hi: u8, flags: Flg) -> Option<Core> {
    let mut narrowed = core;
    narrowed.registers.a = copy_of(Register::A, lo, hi);
    narrowed.flags = flags;
    Some(narrowed)
}

/// An instruction's two sides, where A was compared with 10.
fn has_sides(rt: &impl Abort, op: Op, core: &Core, taken: Option<Core>, not_taken: Option<Core>) {
    let sides = sides_of(op, ANY, core, &compared(Some(10)));
    assert!(rt; sides.taken.map(|side| side.core) == taken);
    assert!(rt; sides.not_taken.map(|side| side.core) == not_taken);
}

#[test]
fn sides_are_narrowed(rt: HostRuntime) {
    let core = with_a(0, 20);
    let flags = core.flags;
    let zero = narrowed(core, 10, 10, Flg { zero: SET, ..flags });
    let not_zero = narrowed(
        core,
        0,
        20,
        Flg {
            zero: CLEAR,
            ..flags
        },
    );
    let carry = narrowed(core, 0, 9, with_carry(SET));
    let not_carry = narrowed(core, 10, 20, with_carry(CLEAR));
    let jump = Op::JumpRelativeIf(Condition::Zero, 5);
    has_sides(&rt, jump, &core, zero, not_zero);
    let jump = Op::JumpIf(Condition::NotZero, 0x4000);
    has_sides(&rt, jump, &core, not_zero, zero);
    let call = Op::CallIf(Condition::Carry, 0x4000);
    has_sides(&rt, call, &core, carry, not_carry);
    let leave = Op::ReturnIf(Condition::NotCarry);
    has_sides(&rt, leave, &core, not_carry, carry);
    has_sides(&rt, Op::Jump(0x4000), &core, Some(core), None);
    // Where Z is known, one side is possible.
    let mut known_zero = core;
    known_zero.flags.zero = SET;
    let jump = Op::JumpRelativeIf(Condition::NotZero, 5);
    has_sides(&rt, jump, &known_zero, None, zero);
    let left = untaken(&core);
    assert!(rt; left.core == core && left.write == AbsWrite::Nothing);
}
