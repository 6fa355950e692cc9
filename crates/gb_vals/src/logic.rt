//! Bitwise operations on intervals.

ghost use Rattle.std.specs.Prelude.{◌≡◌};
ghost use Rattle.gb_domain.specs.Rules.{IsVal, IsFlg};
ghost use Rattle.gb_vals.specs.Meaning.{IsSound, IsOutcome, IsComputed};
ghost use Rattle.gb_vals.specs.Logic as Logic;

use crate::flags::{known, zero_by};
use crate::outcome::{AbsComputed, exact};
use crate::vals::{any, between, is_single};
use gb_domain::types::{Flg, Val};
use gb_effects::arithmetic;

/// A value with the flags of AND, XOR and OR.
fn logical(val: Val, half_carry: bool) -> AbsComputed
    ensures { result ≡ Logic.logical val half_carry }
{
    AbsComputed {
        val,
        flags: Flg {
            zero: zero_by(val),
            subtract: known(false),
            half_carry: known(half_carry),
            carry: known(false),
            is_own: false,
        },
    }
}

fn are_single(a: Val, operand: Val) -> bool
    ensures { result ≡ Logic.are_single a operand }
{
    is_single(a) && is_single(operand)
}

#[tactic(auto, unfolding(crate::specs::Logic::conjunction))]
pub(crate) fn conjunction(a: Val, operand: Val) -> AbsComputed
    ensures { result ≡ Logic.conjunction a operand }
{
    if are_single(a, operand) {
        exact(arithmetic::logical(a.lo & operand.lo, true))
    } else {
        logical(between(0, a.hi.min(operand.hi)), true)
    }
}

#[tactic(auto, unfolding(crate::specs::Logic::disjunction))]
pub(crate) fn disjunction(a: Val, operand: Val) -> AbsComputed
    ensures { result ≡ Logic.disjunction a operand }
{
    if are_single(a, operand) {
        exact(arithmetic::logical(a.lo | operand.lo, false))
    } else {
        logical(between(a.lo.max(operand.lo), 255), false)
    }
}

#[tactic(auto, unfolding(crate::specs::Logic::exclusion))]
pub(crate) fn exclusion(a: Val, operand: Val) -> AbsComputed
    ensures { result ≡ Logic.exclusion a operand }
{
    if are_single(a, operand) {
        exact(arithmetic::logical(a.lo ^ operand.lo, false))
    } else {
        logical(any(), false)
    }
}

/// AND A and OR A.
#[tactic(auto, unfolding(crate::specs::Logic::of_itself))]
pub(crate) fn of_itself(a: Val, half_carry: bool) -> AbsComputed
    ensures { result ≡ Logic.of_itself a half_carry }
{
    if is_single(a) {
        exact(arithmetic::logical(a.lo, half_carry))
    } else {
        logical(a, half_carry)
    }
}

/// CPL: each bit turned over, so the bounds change places; N and H are set.
#[tactic(auto, using(crate::proofs::LogicLaws::complement_sound, crate::proofs::LogicLaws::complement_inhabited, crate::proofs::OriginLaws::complement_computed), unfolding(crate::specs::Logic::complement))]
pub fn complement(a: Val, flags: Flg) -> AbsComputed
    ensures exact { result ≡ Logic.complement a flags }
    ensures sound { IsSound Logic.complement_result a flags result }
    ensures inhabited { IsVal a → IsFlg flags → IsOutcome result }
    ensures computed { IsComputed result }
{
    AbsComputed {
        val: between(255 - a.hi, 255 - a.lo),
        flags: Flg {
            subtract: known(true),
            half_carry: known(true),
            is_own: false,
            ..flags
        },
    }
}
