//! The eight operations of A with an operand.

ghost use Rattle.std.specs.Prelude.{◌≡◌, false};
ghost use Rattle.gb_domain.specs.Rules.{IsVal, IsFlg};
ghost use Rattle.gb_ops.specs.Arithmetic.{alu_result};
ghost use Rattle.gb_vals.specs.Meaning.{IsSound, IsSoundOfTwo, IsOutcome};
ghost use Rattle.gb_vals.specs.Alu as Alu;

use crate::flags::known;
use crate::logic::{conjunction, disjunction, exclusion, of_itself};
use crate::outcome::AbsComputed;
use crate::sums::{difference, sum};
use crate::vals::single;
use gb_domain::types::{Flg, Val};
use gb_ops::op::AluOp;

/// An operation of A with another operand. Known operands, with a known carry where it is read,
/// give the machine's outcome. Else sums and differences go from the least to the greatest where
/// these lie in one block of 256, AND goes up to the smaller greatest value, OR from the larger
/// least one, and all others are any byte; H is either after sums and differences. CP leaves A.
#[tactic(auto, using(crate::proofs::AluLaws::alu_sound, crate::proofs::OriginLaws::alu_written))]
pub fn alu(op: AluOp, a: Val, operand: Val, flags: Flg) -> AbsComputed
    ensures exact { result ≡ Alu.alu op a operand flags }
    ensures sound { IsSoundOfTwo (alu_result op) a operand flags result }
    ensures inhabited { IsVal a → IsVal operand → IsFlg flags → IsOutcome result }
    ensures kept { result.val.origin ≡ Alu.alu_origin op a }
    ensures written { result.flags.is_own ≡ false }
{
    outcome_of(op, a, operand, flags)
}

#[tactic(auto, unfolding(crate::specs::Alu::alu))]
fn outcome_of(op: AluOp, a: Val, operand: Val, flags: Flg) -> AbsComputed
    ensures { result ≡ Alu.alu op a operand flags }
{
    match op {
        AluOp::Add => sum(a, operand, known(false)),
        AluOp::Adc => sum(a, operand, flags.carry),
        AluOp::Sub => difference(a, operand, known(false)),
        AluOp::Sbc => difference(a, operand, flags.carry),
        AluOp::And => conjunction(a, operand),
        AluOp::Xor => exclusion(a, operand),
        AluOp::Or => disjunction(a, operand),
        AluOp::Cp => AbsComputed {
            val: a,
            flags: difference(a, operand, known(false)).flags,
        },
    }
}

/// The flags that any byte leaves with itself.
fn nothing_left(subtract: bool) -> Flg
    ensures { result ≡ Alu.nothing_left subtract }
{
    Flg {
        zero: known(true),
        subtract: known(subtract),
        half_carry: known(false),
        carry: known(false),
        is_own: false,
    }
}

/// An operation of A with A: SUB and XOR give 0, and Z is known after SUB, XOR and CP. AND and OR
/// leave an A that isn't known, with its origin; a known one has none afterwards.
#[tactic(auto, using(crate::proofs::AluLaws::alu_itself_sound, crate::proofs::OriginLaws::alu_itself_written))]
pub fn alu_itself(op: AluOp, a: Val, flags: Flg) -> AbsComputed
    ensures exact { result ≡ Alu.alu_itself op a flags }
    ensures sound { IsSound (Alu.result_with_itself op) a flags result }
    ensures inhabited { IsVal a → IsFlg flags → IsOutcome result }
    ensures kept { result.val.origin ≡ Alu.itself_origin op a }
    ensures written { result.flags.is_own ≡ false }
{
    outcome_of_itself(op, a, flags)
}

#[tactic(auto, unfolding(crate::specs::Alu::alu_itself))]
fn outcome_of_itself(op: AluOp, a: Val, flags: Flg) -> AbsComputed
    ensures { result ≡ Alu.alu_itself op a flags }
{
    match op {
        AluOp::Add => sum(a, a, known(false)),
        AluOp::Adc => sum(a, a, flags.carry),
        AluOp::Sub => AbsComputed {
            val: single(0),
            flags: nothing_left(true),
        },
        AluOp::Sbc => difference(a, a, flags.carry),
        AluOp::And => of_itself(a, true),
        AluOp::Xor => AbsComputed {
            val: single(0),
            flags: nothing_left(false),
        },
        AluOp::Or => of_itself(a, false),
        AluOp::Cp => AbsComputed {
            val: a,
            flags: nothing_left(true),
        },
    }
}
