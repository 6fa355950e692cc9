//! Where the carry is read further on: there keyed states are told apart by it as well, since the same registers may stand for
//! two numbers of more than a byte that are being doubled.

use crate::spots::op_at;
use crate::ways::Ways;
use gb_fixpoint::gb_ops::op::{AluOp, Op, Shift, StackPair};
use gb_fixpoint::limits::CARRIED;
use gb_fixpoint::types::{Run, Spot};

/// Whether an instruction computes by the carry.
fn reads_carry(op: Op) -> bool {
    matches!(
        op,
        Op::Alu(AluOp::Adc | AluOp::Sbc, _)
            | Op::AluImmediate(AluOp::Adc | AluOp::Sbc, _)
            | Op::Shift(Shift::Rl | Shift::Rr, _)
            | Op::RotateA(Shift::Rl | Shift::Rr)
            | Op::ComplementCarry
    )
}

/// Whether the carry behind an instruction isn't the one before it, or isn't followed: behind a call nothing is.
fn ends_carry(op: Op) -> bool {
    matches!(
        op,
        Op::Alu(..)
            | Op::AluImmediate(..)
            | Op::AddHl(_)
            | Op::Shift(..)
            | Op::RotateA(_)
            | Op::DecimalAdjust
            | Op::SetCarry
            | Op::AddSp(_)
            | Op::LoadHlSp(_)
            | Op::Pop(StackPair::Af)
            | Op::Call(_)
            | Op::CallIf(..)
            | Op::Restart(_)
    )
}

/// Whether the carry is read at a spot, or on the only way from there before it is another one.
pub fn is_carry_read(run: &Run<'_>, ways: &Ways, spot: Spot) -> bool {
    let mut point = spot.point;
    for _ in 0..CARRIED {
        let here = Spot { point, ..spot };
        match op_at(run, here) {
            Some(op) if reads_carry(op) => return true,
            Some(op) if !ends_carry(op) => {}
            _ => return false,
        }
        match ways.only_behind(point) {
            Some(behind) => point = behind,
            None => return false,
        }
    }
    false
}
