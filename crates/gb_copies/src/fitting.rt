//! Bounds of a window's register, cut to what its shadows leave.

ghost use Rattle.std.specs.Prelude.{◌≡◌, ◌+◌, ◌-◌};
ghost use Rattle.gb_copies.specs.Sides.{least_from, greatest_from};
ghost use Rattle.gb_copies.specs.Fitting as Fitting;

use crate::windows::{BankWindow, counts_from_one, register_bits};
use gb_domain::StridedInterval;
use gb_domain::interval::{cut, with_low_bits};
use gb_domain::low_bits::low_bits;
use gb_domain::pairs::Bounds;
use gb_ops::machine::Kind;

fn is_some_in(values: StridedInterval, wanted: Option<StridedInterval>) -> bool
    ensures { result ≡ Fitting.is_some_in values wanted }
{
    match wanted {
        Some(wanted) => cut(values, wanted).is_some(),
        None => false,
    }
}

/// Whether a register of so many bits has room for all of a place's values, and a number isn't within their bounds.
#[tactic(auto, using(gb_domain::proofs::ModulusLaws::modulus_bound), unfolding(crate::specs::Fitting::is_outside, gb_domain::specs::LowBits::modulus))]
fn is_outside(values: StridedInterval, count: u8, number: u16) -> bool
    ensures { result ≡ Fitting.is_outside values count number }
{
    let modulus = 1u16 << count.min(8);
    u16::from(values.hi) < modulus
        && number < modulus
        && (number < u16::from(values.lo) || u16::from(values.hi) < number)
}

/// Whether a number is one of a place's values, of which each one counts.
#[tactic(auto, unfolding(crate::specs::Fitting::is_inside))]
fn is_inside(values: StridedInterval, number: u16) -> bool
    ensures { result ≡ Fitting.is_inside values number }
{
    values.count == 0 && u16::from(values.lo) <= number && number <= u16::from(values.hi)
}

#[tactic(auto, unfolding(crate::specs::Fitting::some_has))]
fn has_one_with(values: StridedInterval, count: u8, rest: u16) -> bool
    ensures { result ≡ Fitting.some_has values count rest }
{
    is_some_in(
        values,
        with_low_bits(values.lo, values.hi, low_bits(count, rest)),
    )
}

/// Whether one of the values has these low bits. Many numbers are asked, and for nearly all of them the bounds tell.
#[tactic(auto, using(crate::proofs::FittingLaws::some_has_outside, crate::proofs::FittingLaws::some_has_inside))]
fn some_has(values: StridedInterval, count: u8, rest: u16) -> bool
    ensures { result ≡ Fitting.some_has values count rest }
{
    if is_outside(values, count, rest) {
        return false;
    }
    is_inside(values, rest) || has_one_with(values, count, rest)
}

fn leaves_by(from_one: bool, values: StridedInterval, count: u8, number: u16) -> bool
    ensures { result ≡ Fitting.leaves_by from_one values count number }
{
    if from_one {
        number != 0
            && (some_has(values, count, number) || number == 1 && some_has(values, count, 0))
    } else {
        some_has(values, count, number)
    }
}

/// Whether one of a place's values leaves the number.
#[tactic(auto, unfolding(crate::specs::Fitting::leaves))]
fn leaves(kind: Kind, window: BankWindow, number: u16, values: StridedInterval) -> bool
    ensures { result ≡ Fitting.leaves kind window number values }
{
    let count = register_bits(kind, window);
    number < 1 << count && leaves_by(counts_from_one(kind, window), values, count, number)
}

/// Whether of each place one of the values leaves the number.
#[tactic(auto, unfolding(crate::specs::Fitting::fits))]
fn fits(kind: Kind, window: BankWindow, places: &[StridedInterval], number: u16) -> bool
    ensures { result ≡ Fitting.fits kind window places.now number }
{
    places
        .iter()
        .all(|values| leaves(kind, window, number, *values))
}

/// The least number that fits.
#[tactic(auto, using(crate::proofs::LeastLaws::least_from_none, crate::proofs::LeastLaws::least_from_found, crate::proofs::LeastLaws::least_from_next))]
fn least(
    kind: Kind,
    window: BankWindow,
    places: &[StridedInterval],
    first: u16,
    last: u16,
) -> Option<u16>
    ensures { result ≡ least_from (Fitting.fits kind window places.now) (last + 1 - first) first }
{
    for number in first..=last {
        if fits(kind, window, places, number) {
            return Some(number);
        }
    }
    None
}

/// The greatest number that fits.
#[tactic(auto, using(crate::proofs::LeastLaws::greatest_from_none, crate::proofs::LeastLaws::greatest_from_found, crate::proofs::LeastLaws::greatest_from_next))]
fn greatest(
    kind: Kind,
    window: BankWindow,
    places: &[StridedInterval],
    first: u16,
    last: u16,
) -> Option<u16>
    ensures { result ≡ greatest_from (Fitting.fits kind window places.now) (last + 1 - first) last }
{
    for number in (first..=last).rev() {
        if fits(kind, window, places, number) {
            return Some(number);
        }
    }
    None
}

#[tactic(auto, unfolding(crate::specs::Fitting::fitting))]
fn ends(
    kind: Kind,
    window: BankWindow,
    places: &[StridedInterval],
    bounds: Bounds,
) -> Option<Bounds>
    ensures { result ≡ Fitting.fitting kind window places.now bounds.first bounds.last }
{
    let first = least(kind, window, places, bounds.first, bounds.last)?;
    let last = greatest(kind, window, places, bounds.first, bounds.last)?;
    Some(Bounds { first, last })
}

/// The bounds of a window's register, cut to the least and the greatest number that each of some places may shadow: one of the
/// place's values leaves it. `None` where no number within the bounds is such.
#[tactic(auto, using(crate::proofs::FittingLaws::fitting_fitted, crate::proofs::FittingLaws::fitting_sound))]
pub fn fitting(
    kind: Kind,
    window: BankWindow,
    places: &[StridedInterval],
    bounds: Bounds,
) -> Option<Bounds>
    ensures exact { result ≡ Fitting.fitting kind window places.now bounds.first bounds.last }
    ensures fitted { Fitting.IsFitting kind window places.now bounds.first bounds.last result }
    ensures sound { Fitting.IsSoundFitting kind window places.now bounds.first bounds.last result }
{
    ends(kind, window, places, bounds)
}
