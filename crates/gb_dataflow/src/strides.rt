//! Loops that go through an array by a pointer, from one struct to the next up to the array's end, as compiled code does.

use crate::loops::is_open;
use crate::sources::halves;
use crate::spots::op_at;
use crate::ways::Loop;
use gb_fixpoint::code_point::CodePoint;
use gb_fixpoint::gb_ops::op::{AluOp, Op, Operand, Register};
use gb_fixpoint::register_set::{REGISTERS, RegisterSet};
use gb_fixpoint::types::{Run, Spot};

/// Whether a loop moves some registers by more than one in a round: by a sum, or by two steps of a pair.
fn strides(run: &Run<'_>, procedure: usize, around: &Loop, registers: &RegisterSet) -> bool {
    let mut steps: u32 = 0;
    for point in around.iter() {
        let spot = Spot {
            procedure,
            point: *point,
        };
        match op_at(run, spot) {
            Some(Op::AddHl(_)) if registers.contains(Register::H) => return true,
            Some(Op::IncrementPair(pair) | Op::DecrementPair(pair)) => {
                let moved = halves(pair);
                if !moved.is_empty() && moved.is_inside(registers) {
                    steps = steps.saturating_add(1);
                }
            }
            _ => {}
        }
    }
    steps > 1
}

/// Whether a loop compares one of some registers.
fn compares(run: &Run<'_>, procedure: usize, around: &Loop, registers: &RegisterSet) -> bool {
    let mut is_taken = false;
    let mut is_compared = false;
    for point in around.iter() {
        let spot = Spot {
            procedure,
            point: *point,
        };
        match op_at(run, spot) {
            Some(Op::Load(Operand::Register(Register::A), Operand::Register(register))) => {
                is_taken = is_taken || registers.contains(register);
            }
            Some(
                Op::Alu(AluOp::Cp | AluOp::Sub | AluOp::Sbc, _)
                | Op::AluImmediate(AluOp::Cp | AluOp::Sub | AluOp::Sbc, _),
            ) => is_compared = true,
            _ => {}
        }
    }
    is_taken && is_compared
}

/// Whether the rounds of a loop are known, if they are told apart by some registers: it is entered from a point with known ones, moves
/// them by more than one, and compares them. A loop that goes byte by byte would have too many.
pub(crate) fn has_known_rounds(
    run: &Run<'_>,
    procedure: usize,
    around: &Loop,
    before: CodePoint,
    registers: &RegisterSet,
) -> bool {
    for register in REGISTERS {
        if registers.contains(register) && is_open(run, procedure, before, register) {
            return false;
        }
    }
    compares(run, procedure, around, registers) && strides(run, procedure, around, registers)
}
