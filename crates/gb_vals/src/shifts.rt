//! Rotations and shifts of intervals.

ghost use Rattle.std.specs.Prelude.{◌≡◌};
ghost use Rattle.gb_domain.specs.Rules.{IsVal, IsFlg};
ghost use Rattle.gb_vals.specs.Meaning.{IsSound, IsOutcome, IsComputed};
ghost use Rattle.gb_vals.specs.Shifts as Shifts;

use crate::flags::{either, is_known, known};
use crate::outcome::{AbsComputed, exact};
use crate::vals::{any, between, is_single};
use gb_domain::types::{Flg, May, Val};
use gb_effects::arithmetic::shifted;
use gb_ops::op::Shift;

fn is_carry_known(how: Shift, carry: May) -> bool
    ensures { result ≡ Shifts.is_carry_known how carry }
{
    match how {
        Shift::Rl | Shift::Rr => is_known(carry),
        _ => true,
    }
}

fn shifted_val(how: Shift, val: Val) -> Val
    ensures { result ≡ Shifts.shifted_val how val }
{
    match how {
        Shift::Srl => between(val.lo / 2, val.hi / 2),
        _ => any(),
    }
}

fn carry_out(how: Shift) -> May
    ensures { result ≡ Shifts.carry_out how }
{
    match how {
        Shift::Swap => known(false),
        _ => either(),
    }
}

/// A rotation or shift where the byte or a carry that it reads isn't known.
fn shifted_any(how: Shift, val: Val) -> AbsComputed
    ensures { result ≡ Shifts.shifted_any how val }
{
    AbsComputed {
        val: shifted_val(how, val),
        flags: Flg {
            zero: either(),
            subtract: known(false),
            half_carry: known(false),
            carry: carry_out(how),
            is_own: false,
        },
    }
}

/// A rotation or shift, or SWAP. A byte that isn't known, or a carry that isn't where RL and RR
/// read it, gives any byte and either carry; but SRL halves the bounds, and SWAP clears the carry.
#[tactic(auto, using(crate::proofs::ShiftLaws::shift_sound, crate::proofs::ShiftLaws::shift_inhabited, crate::proofs::OriginLaws::shift_computed), unfolding(crate::specs::Shifts::shift_of))]
pub fn shift(how: Shift, val: Val, flags: Flg) -> AbsComputed
    ensures exact { result ≡ Shifts.shift_of how val flags }
    ensures sound { IsSound (Shifts.shift_result how) val flags result }
    ensures inhabited { IsVal val → IsFlg flags → IsOutcome result }
    ensures computed { IsComputed result }
{
    if is_single(val) && is_carry_known(how, flags.carry) {
        exact(shifted(how, val.lo, flags.carry.set))
    } else {
        shifted_any(how, val)
    }
}

/// RLCA, RRCA, RLA and RRA: as the rotation, with Z clear.
#[tactic(auto, using(crate::proofs::ShiftLaws::rotate_a_sound, crate::proofs::ShiftLaws::rotate_a_inhabited, crate::proofs::OriginLaws::rotate_a_computed), unfolding(crate::specs::Shifts::rotation_of_a))]
pub fn rotate_a(how: Shift, a: Val, flags: Flg) -> AbsComputed
    ensures exact { result ≡ Shifts.rotation_of_a how a flags }
    ensures sound { IsSound (Shifts.rotation_result how) a flags result }
    ensures inhabited { IsVal a → IsFlg flags → IsOutcome result }
    ensures computed { IsComputed result }
{
    let shifted = shift(how, a, flags);
    AbsComputed {
        val: shifted.val,
        flags: Flg {
            zero: known(false),
            ..shifted.flags
        },
    }
}
