//! Operations by the rules of version 4, whose values have low bits, or by those of versions 1 to 3.

ghost use Rattle.std.specs.Prelude.{◌≡◌};
ghost use Rattle.gb_abs_effects.specs.ByRules as ByRules;

use gb_abs::{
    AbsComputed, alu, alu_itself, complement, decrement, increment, reset_bit, set_bit, shift,
    strided,
};
use gb_domain::types::{Flg, Val};
use gb_ops::op::{AluOp, Shift};

/// An operation of A with another operand.
#[tactic(auto, unfolding(crate::specs::ByRules::alu_by))]
pub(crate) fn alu_by(is_whole: bool, op: AluOp, a: Val, operand: Val, flags: Flg) -> AbsComputed
    ensures { result ≡ ByRules.alu_by is_whole op a operand flags }
{
    if is_whole {
        strided::alu(op, a, operand, flags)
    } else {
        alu(op, a, operand, flags)
    }
}

/// An operation of A with A.
#[tactic(auto, unfolding(crate::specs::ByRules::itself_by))]
pub(crate) fn itself_by(is_whole: bool, op: AluOp, a: Val, flags: Flg) -> AbsComputed
    ensures { result ≡ ByRules.itself_by is_whole op a flags }
{
    if is_whole {
        strided::alu_itself(op, a, flags)
    } else {
        alu_itself(op, a, flags)
    }
}

/// CPL.
#[tactic(auto, unfolding(crate::specs::ByRules::complement_by))]
pub(crate) fn complement_by(is_whole: bool, a: Val, flags: Flg) -> AbsComputed
    ensures { result ≡ ByRules.complement_by is_whole a flags }
{
    if is_whole {
        strided::complement(a, flags)
    } else {
        complement(a, flags)
    }
}

/// INC of a byte.
#[tactic(auto, unfolding(crate::specs::ByRules::increment_by))]
pub(crate) fn increment_by(is_whole: bool, val: Val, flags: Flg) -> AbsComputed
    ensures { result ≡ ByRules.increment_by is_whole val flags }
{
    if is_whole {
        strided::increment(val, flags)
    } else {
        increment(val, flags)
    }
}

/// DEC of a byte.
#[tactic(auto, unfolding(crate::specs::ByRules::decrement_by))]
pub(crate) fn decrement_by(is_whole: bool, val: Val, flags: Flg) -> AbsComputed
    ensures { result ≡ ByRules.decrement_by is_whole val flags }
{
    if is_whole {
        strided::decrement(val, flags)
    } else {
        decrement(val, flags)
    }
}

/// A rotation or shift, or SWAP.
#[tactic(auto, unfolding(crate::specs::ByRules::shift_by))]
pub(crate) fn shift_by(is_whole: bool, how: Shift, val: Val, flags: Flg) -> AbsComputed
    ensures { result ≡ ByRules.shift_by is_whole how val flags }
{
    if is_whole {
        strided::shift(how, val, flags)
    } else {
        shift(how, val, flags)
    }
}

/// RES.
#[tactic(auto, unfolding(crate::specs::ByRules::reset_bit_by))]
pub(crate) fn reset_bit_by(is_whole: bool, n: u8, val: Val) -> Val
    ensures { result ≡ ByRules.reset_bit_by is_whole n val }
{
    if is_whole {
        strided::reset_bit(n, val)
    } else {
        reset_bit(n, val)
    }
}

/// SET.
#[tactic(auto, unfolding(crate::specs::ByRules::set_bit_by))]
pub(crate) fn set_bit_by(is_whole: bool, n: u8, val: Val) -> Val
    ensures { result ≡ ByRules.set_bit_by is_whole n val }
{
    if is_whole {
        strided::set_bit(n, val)
    } else {
        set_bit(n, val)
    }
}
