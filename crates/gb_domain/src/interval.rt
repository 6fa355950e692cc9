//! Intervals of bytes of which only each 2^n-th counts, and cutting them.

ghost use Rattle.std.specs.Prelude.{◌≡◌, true, Option, IfSome};
ghost use Rattle.gb_domain.specs.Interval as Interval;
ghost use Rattle.gb_domain.specs.Meaning.{AreIn, IsWithin, IsStrided, AllHave, Leaves, LiesIn};

use crate::low_bits::{LowBits, all_of, are_congruent, common, covers, low_bits, modulus};

/// The bytes `lo`, `lo` + 2^`count` and so on to `hi`. Of one byte the count is 0.
#[derive(Clone, Copy, PartialEq, Eq)]
pub struct StridedInterval {
    pub lo: u8,
    pub hi: u8,
    pub count: u8,
}

/// All bytes from `lo` to `hi`.
pub fn bounds(lo: u8, hi: u8) -> StridedInterval
    ensures { result ≡ Interval.bounds lo hi }
{
    StridedInterval { lo, hi, count: 0 }
}

/// The low bits that all its values have.
#[tactic(auto, using(crate::proofs::IntervalLaws::low_bits_of_sound), unfolding(crate::specs::Interval::low_bits_of))]
pub fn low_bits_of(interval: StridedInterval) -> LowBits
    ensures exact { result ≡ Interval.low_bits_of interval }
    ensures sound { AllHave interval result }
{
    if interval.lo == interval.hi {
        all_of(interval.lo)
    } else {
        low_bits(interval.count, interval.lo.into())
    }
}

#[tactic(auto, unfolding(crate::specs::Interval::least))]
fn least(lo: u8, known: LowBits) -> u16
    ensures { result ≡ Interval.least lo known }
{
    let modulus = modulus(known.count);
    let lo = u16::from(lo);
    lo + (u16::from(known.bits) % modulus + modulus - lo % modulus) % modulus
}

#[tactic(auto, unfolding(crate::specs::Interval::greatest))]
fn greatest(hi: u8, known: LowBits) -> u8
    ensures { result ≡ Interval.greatest hi known }
{
    let modulus = modulus(known.count);
    let above = u16::from(hi) % modulus + modulus - u16::from(known.bits) % modulus;
    hi.saturating_sub((above % modulus) as u8)
}

/// Of one byte the count is 0.
fn strided(lo: u8, hi: u8, count: u8) -> StridedInterval
    ensures { result ≡ Interval.strided lo hi count }
{
    let count = if lo == hi { 0 } else { count };
    StridedInterval { lo, hi, count }
}

#[tactic(auto, unfolding(crate::specs::Interval::with_low_bits))]
fn least_to_greatest(lo: u8, hi: u8, known: LowBits) -> Option<StridedInterval>
    ensures { result ≡ Interval.with_low_bits lo hi known }
{
    let least = least(lo, known);
    if least > u16::from(hi) {
        return None;
    }
    let lo = least as u8;
    Some(strided(lo, greatest(hi, known), known.count.min(8)))
}

/// The bytes from `lo` to `hi` that have the low bits: the least to the greatest. `None` where none has.
#[tactic(auto, using(crate::proofs::IntervalLaws::with_low_bits_leaves, crate::proofs::IntervalLaws::with_low_bits_strided))]
pub fn with_low_bits(lo: u8, hi: u8, known: LowBits) -> Option<StridedInterval>
    ensures exact { result ≡ Interval.with_low_bits lo hi known }
    ensures leaves { Leaves (IsWithin lo hi known) result }
    ensures strided { IfSome result IsStrided }
{
    least_to_greatest(lo, hi, known)
}

/// Whether some byte has both.
#[tactic(auto, unfolding(crate::specs::Interval::agree))]
fn agree(left: LowBits, right: LowBits) -> bool
    ensures { result ≡ Interval.agree left right }
{
    are_congruent(
        left.count.min(right.count),
        left.bits.into(),
        right.bits.into(),
    )
}

fn more(left: LowBits, right: LowBits) -> LowBits
    ensures { result ≡ Interval.more left right }
{
    if right.count <= left.count {
        left
    } else {
        right
    }
}

/// The values that both have. `None` where they have none in common.
#[tactic(auto, using(crate::proofs::IntervalLaws::cut_leaves, crate::proofs::IntervalLaws::cut_strided), unfolding(crate::specs::Interval::cut))]
pub fn cut(interval: StridedInterval, other: StridedInterval) -> Option<StridedInterval>
    ensures exact { result ≡ Interval.cut interval other }
    ensures leaves { Leaves (AreIn interval other) result }
    ensures strided { IfSome result IsStrided }
{
    let low = low_bits_of(interval);
    let other_low = low_bits_of(other);
    if !agree(low, other_low) {
        return None;
    }
    let lo = interval.lo.max(other.lo);
    let hi = interval.hi.min(other.hi);
    with_low_bits(lo, hi, more(low, other_low))
}

/// The least interval that holds both, with the low bits that all their values have.
#[tactic(auto, using(crate::proofs::IntervalLaws::join_first, crate::proofs::IntervalLaws::join_second), unfolding(crate::specs::Interval::join))]
pub fn join(interval: StridedInterval, other: StridedInterval) -> StridedInterval
    ensures exact { result ≡ Interval.join interval other }
    ensures first { LiesIn interval result }
    ensures second { LiesIn other result }
{
    let low = common(low_bits_of(interval), low_bits_of(other));
    let lo = interval.lo.min(other.lo);
    strided(lo, interval.hi.max(other.hi), low.count)
}

/// Whether the second one's bounds and low bits hold of all values of the first one.
#[tactic(auto, using(crate::proofs::IntervalLaws::lies_in_sound), unfolding(crate::specs::Interval::lies_in))]
pub fn lies_in(interval: StridedInterval, other: StridedInterval) -> bool
    ensures exact { result ≡ Interval.lies_in interval other }
    ensures sound { result ≡ true → LiesIn interval other }
{
    other.lo <= interval.lo
        && interval.hi <= other.hi
        && covers(
            low_bits_of(interval),
            low_bits(other.count, other.lo.into()),
        )
}
