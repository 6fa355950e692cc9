//! Sums and differences of intervals.

ghost use Rattle.std.specs.Prelude.{◌≡◌, ◌≤◌};
ghost use Rattle.gb_ops.specs.Arithmetic as machine;
ghost use Rattle.gb_domain.specs.Rules.{IsVal, IsFlg};
ghost use Rattle.gb_vals.specs.Meaning.{IsSound, IsOutcome, IsComputed};
ghost use Rattle.gb_vals.specs.Sums as Sums;

use crate::flags::{either, greatest_flags, is_known, known, zero_by};
use crate::outcome::{AbsComputed, exact};
use crate::vals::{any, between, is_single};
use gb_domain::types::{Flg, May, Val};
use gb_effects::arithmetic::{added, decremented, incremented, subtracted};
use gb_effects::flags::bit_of;

/// The low bytes of the numbers from least to most, where they lie in one block of 256.
fn cut(least: u16, most: u16) -> Val
    ensures { result ≡ Sums.cut least most }
{
    if least / 256 == most / 256 {
        between((least % 256) as u8, (most % 256) as u8)
    } else {
        any()
    }
}

/// Z of the low bytes of the numbers from least to most.
fn zero_of(least: u16, most: u16) -> May
    ensures { result ≡ Sums.zero_of least most }
{
    May {
        clear: least < most || least % 256 != 0,
        set: least <= most / 256 * 256,
    }
}

#[tactic(auto, unfolding(crate::specs::Sums::sum_of))]
fn sum_of(least: u16, most: u16) -> AbsComputed
    ensures { result ≡ Sums.sum_of least most }
{
    AbsComputed {
        val: cut(least, most),
        flags: Flg {
            zero: zero_of(least, most),
            subtract: known(false),
            half_carry: either(),
            carry: May {
                clear: least <= 255,
                set: most > 255,
            },
            is_own: false,
        },
    }
}

#[tactic(auto, unfolding(crate::specs::Sums::difference_of))]
fn difference_of(least: u16, most: u16) -> AbsComputed
    ensures { result ≡ Sums.difference_of least most }
{
    AbsComputed {
        val: cut(least, most),
        flags: Flg {
            zero: zero_of(least, most),
            subtract: known(true),
            half_carry: either(),
            carry: May {
                clear: most > 255,
                set: least <= 255,
            },
            is_own: false,
        },
    }
}

#[tactic(auto, unfolding(gb_ops::specs::Flags::bit_of))]
fn least_bit(may: May) -> u8
    ensures value { result ≡ Sums.least_bit may }
    ensures small { result ≤ 1 }
{
    bit_of(!may.clear, 1)
}

#[tactic(auto, unfolding(gb_ops::specs::Flags::bit_of))]
fn greatest_bit(may: May) -> u8
    ensures value { result ≡ Sums.greatest_bit may }
    ensures small { result ≤ 1 }
{
    bit_of(may.set, 1)
}

#[tactic(auto, unfolding(crate::specs::Sums::are_known))]
fn are_known(a: Val, operand: Val, carry: May) -> bool
    ensures { result ≡ Sums.are_known a operand carry }
{
    is_single(a) && is_single(operand) && is_known(carry)
}

/// ADD and ADC, with the carry that comes in.
#[tactic(auto, unfolding(crate::specs::Sums::sum))]
pub(crate) fn sum(a: Val, operand: Val, carry: May) -> AbsComputed
    ensures { result ≡ Sums.sum a operand carry }
{
    if are_known(a, operand, carry) {
        exact(added(a.lo, operand.lo, greatest_bit(carry)))
    } else {
        sum_of(
            u16::from(a.lo) + u16::from(operand.lo) + u16::from(least_bit(carry)),
            u16::from(a.hi) + u16::from(operand.hi) + u16::from(greatest_bit(carry)),
        )
    }
}

/// SUB, SBC and CP, with the borrow that comes in.
#[tactic(auto, unfolding(crate::specs::Sums::difference))]
pub(crate) fn difference(a: Val, operand: Val, borrow: May) -> AbsComputed
    ensures { result ≡ Sums.difference a operand borrow }
{
    if are_known(a, operand, borrow) {
        exact(subtracted(a.lo, operand.lo, greatest_bit(borrow)))
    } else {
        let most_taken = u16::from(operand.hi) + u16::from(greatest_bit(borrow));
        let least_taken = u16::from(operand.lo) + u16::from(least_bit(borrow));
        difference_of(
            u16::from(a.lo) + 256 - most_taken,
            u16::from(a.hi) + 256 - least_taken,
        )
    }
}

/// The value and the flags of INC and DEC.
fn counted(val: Val, subtract: bool, carry: May) -> AbsComputed
    ensures { result ≡ Sums.counted val subtract carry }
{
    AbsComputed {
        val,
        flags: Flg {
            zero: zero_by(val),
            subtract: known(subtract),
            half_carry: either(),
            carry,
            is_own: false,
        },
    }
}

fn keeping_carry(carry: May, outcome: AbsComputed) -> AbsComputed
    ensures { result ≡ Sums.keeping_carry carry outcome }
{
    AbsComputed {
        val: outcome.val,
        flags: Flg {
            carry,
            ..outcome.flags
        },
    }
}

fn next_val(val: Val) -> Val
    ensures { result ≡ Sums.next_val val }
{
    if val.hi < 255 {
        between(val.lo.wrapping_add(1), val.hi + 1)
    } else {
        any()
    }
}

fn previous_val(val: Val) -> Val
    ensures { result ≡ Sums.previous_val val }
{
    if val.lo > 0 {
        between(val.lo - 1, val.hi.saturating_sub(1))
    } else {
        any()
    }
}

/// INC: any byte where the greatest value is FF; H is known of a known byte alone. The carry stays.
#[tactic(auto, using(crate::proofs::SumLaws::increment_sound, crate::proofs::SumLaws::increment_inhabited, crate::proofs::OriginLaws::increment_computed), unfolding(crate::specs::Sums::increment))]
pub fn increment(val: Val, flags: Flg) -> AbsComputed
    ensures exact { result ≡ Sums.increment val flags }
    ensures sound { IsSound machine.incremented val flags result }
    ensures inhabited { IsVal val → IsFlg flags → IsOutcome result }
    ensures computed { IsComputed result }
{
    if is_single(val) {
        keeping_carry(
            flags.carry,
            exact(incremented(val.lo, greatest_flags(flags))),
        )
    } else {
        counted(next_val(val), false, flags.carry)
    }
}

/// DEC: any byte where the least value is 0; H is known of a known byte alone. The carry stays.
#[tactic(auto, using(crate::proofs::SumLaws::decrement_sound, crate::proofs::SumLaws::decrement_inhabited, crate::proofs::OriginLaws::decrement_computed), unfolding(crate::specs::Sums::decrement))]
pub fn decrement(val: Val, flags: Flg) -> AbsComputed
    ensures exact { result ≡ Sums.decrement val flags }
    ensures sound { IsSound machine.decremented val flags result }
    ensures inhabited { IsVal val → IsFlg flags → IsOutcome result }
    ensures computed { IsComputed result }
{
    if is_single(val) {
        keeping_carry(
            flags.carry,
            exact(decremented(val.lo, greatest_flags(flags))),
        )
    } else {
        counted(previous_val(val), true, flags.carry)
    }
}
