//! What a branch leaves of the places that hold a tested byte.

ghost use Rattle.std.specs.Prelude.{◌≡◌, ◌≤◌, ◌+◌, ◌-◌, IfSome};
ghost use Rattle.gb_domain.specs.Interval as Interval;
ghost use Rattle.gb_copies.specs.Sides as Sides;
ghost use Rattle.gb_copies.specs.Sound.{IsSoundNarrowing, IsCut};

use gb_domain::StridedInterval;
use gb_domain::interval::{bounds, cut};
use gb_domain::low_bits::are_congruent;
use gb_domain::places::{OneByte, Test};
use gb_domain::types::Val;
use gb_domain::values::interval_of;
use gb_ops::op::Condition;
use gb_ops::registers::Registers;

/// What is known of the registers, and of the byte at the address that is among the places (any value where none is).
#[derive(Clone, Copy)]
pub struct PlaceContents {
    pub registers: Registers<Val>,
    pub memory: Val,
}

/// The values that both have. Where no low bits are known, bounds are enough.
#[tactic(auto, using(crate::proofs::PlainLaws::cut_plain, crate::proofs::PlainLaws::cut_apart))]
fn both(values: StridedInterval, other: StridedInterval) -> Option<StridedInterval>
    ensures { result ≡ Interval.cut values other }
{
    if values.count != 0 || other.count != 0 {
        return cut(values, other);
    }
    let lo = values.lo.max(other.lo);
    let hi = values.hi.min(other.hi);
    if lo <= hi { Some(bounds(lo, hi)) } else { None }
}

/// The byte's values that a place has too.
fn cut_if(is_place: bool, at_place: Val, values: Option<StridedInterval>) -> Option<StridedInterval>
    ensures { result ≡ Sides.cut_if is_place at_place values }
{
    let values = values?;
    if is_place {
        both(values, interval_of(at_place))
    } else {
        Some(values)
    }
}

/// The values that all places share.
#[tactic(auto, unfolding(crate::specs::Sides::shared))]
fn shared(byte: &OneByte, contents: &PlaceContents) -> Option<StridedInterval>
    ensures { result ≡ Sides.shared byte.now contents.now }
{
    let places = byte.registers;
    let vals = contents.registers;
    let any = Some(bounds(0, 255));
    let values = cut_if(byte.address.is_some(), contents.memory, any);
    let values = cut_if(places.l, vals.l, values);
    let values = cut_if(places.h, vals.h, values);
    let values = cut_if(places.e, vals.e, values);
    let values = cut_if(places.d, vals.d, values);
    let values = cut_if(places.c, vals.c, values);
    let values = cut_if(places.b, vals.b, values);
    cut_if(places.a, vals.a, values)
}

/// The values from first, and below end.
#[tactic(auto, unfolding(crate::specs::Sides::between))]
fn between(first: u16, end: u16, values: StridedInterval) -> Option<StridedInterval>
    requires { end ≤ 256 }
    ensures { result ≡ Sides.between first end values }
{
    if first < end {
        both(values, bounds(first as u8, (end - 1) as u8))
    } else {
        None
    }
}

fn without(n: u8, values: StridedInterval) -> Option<StridedInterval>
    ensures { result ≡ Sides.without n values }
{
    let bound = u16::from(n);
    if values.lo == n {
        between(bound + 1, 256, values)
    } else if values.hi == n {
        between(0, bound, values)
    } else {
        Some(values)
    }
}

/// The values that are left on a condition's side after a comparison with n.
#[tactic(auto, unfolding(crate::specs::Sides::compared))]
fn compared(n: u8, condition: Condition, values: StridedInterval) -> Option<StridedInterval>
    ensures { result ≡ Sides.compared n condition values }
{
    let bound = u16::from(n);
    match condition {
        Condition::NotZero => without(n, values),
        Condition::Zero => between(bound, bound + 1, values),
        Condition::NotCarry => between(bound, 256, values),
        Condition::Carry => between(0, bound, values),
    }
}

/// Whether a value has one of the bits, or where that isn't wanted none.
fn has_bits(mask: u8, wanted: bool, value: u8) -> bool
    ensures { result ≡ Sides.has_bits mask wanted value }
{
    if wanted {
        value & mask != 0
    } else {
        value & mask == 0
    }
}

/// The same, of a byte that has the low bits.
#[tactic(auto, unfolding(crate::specs::Sides::is_left))]
fn is_left(mask: u8, wanted: bool, values: StridedInterval, value: u8) -> bool
    ensures { result ≡ Sides.is_left mask wanted values value }
{
    has_bits(mask, wanted, value) && are_congruent(values.count, value.into(), values.lo.into())
}

/// The least value that has one of the bits, as wanted.
#[tactic(auto, using(crate::proofs::LeastLaws::least_from_none, crate::proofs::LeastLaws::least_from_found, crate::proofs::LeastLaws::least_from_next))]
fn least(mask: u8, wanted: bool, values: StridedInterval) -> Option<u8>
    ensures { result ≡ Sides.least_from (Sides.is_left mask wanted values) (values.hi + 1 - values.lo) values.lo }
{
    for value in values.lo..=values.hi {
        if is_left(mask, wanted, values, value) {
            return Some(value);
        }
    }
    None
}

/// The greatest value that has one of the bits, as wanted.
#[tactic(auto, using(crate::proofs::LeastLaws::greatest_from_none, crate::proofs::LeastLaws::greatest_from_found, crate::proofs::LeastLaws::greatest_from_next))]
fn greatest(mask: u8, wanted: bool, values: StridedInterval) -> Option<u8>
    ensures { result ≡ Sides.greatest_from (Sides.is_left mask wanted values) (values.hi + 1 - values.lo) values.hi }
{
    for value in (values.lo..=values.hi).rev() {
        if is_left(mask, wanted, values, value) {
            return Some(value);
        }
    }
    None
}

/// The least to the greatest value with one of the bits, as wanted.
#[tactic(auto, unfolding(crate::specs::Sides::with_bits))]
fn with_bits(mask: u8, wanted: bool, values: StridedInterval) -> Option<StridedInterval>
    ensures { result ≡ Sides.with_bits mask wanted values }
{
    let lo = least(mask, wanted, values)?;
    let hi = greatest(mask, wanted, values)?;
    both(values, bounds(lo, hi))
}

/// The values that are left on a condition's side after a test.
#[tactic(auto, unfolding(crate::specs::Sides::side_of))]
fn side_of(test: Test, condition: Condition, values: StridedInterval) -> Option<StridedInterval>
    ensures { result ≡ Sides.side_of test condition values }
{
    match (test, condition) {
        (Test::Compare(n), _) => compared(n, condition, values),
        (Test::Bits(mask), Condition::Zero) => with_bits(mask, false, values),
        (Test::Bits(mask), Condition::NotZero) => with_bits(mask, true, values),
        (Test::Bits(_), _) => Some(values),
    }
}

/// Whether a test speaks of a condition's flag.
fn is_asked(test: Test, condition: Condition) -> bool
    ensures { result ≡ Sides.is_asked test condition }
{
    match (test, condition) {
        (Test::Compare(_), _) => true,
        (Test::Bits(_), Condition::Zero | Condition::NotZero) => true,
        _ => false,
    }
}

/// A place gets the byte's values.
fn given(is_place: bool, byte: StridedInterval, at_place: Val) -> Val
    ensures { result ≡ Sides.given is_place byte at_place }
{
    if is_place {
        Val {
            lo: byte.lo,
            hi: byte.hi,
            low_bits: byte.count,
            origin: at_place.origin,
        }
    } else {
        at_place
    }
}

/// Each place gets the byte's values.
#[tactic(auto, unfolding(crate::specs::Sides::with_byte))]
fn with_byte(byte: &OneByte, values: StridedInterval, contents: &PlaceContents) -> PlaceContents
    ensures { result ≡ Sides.with_byte byte.now values contents.now }
{
    let places = byte.registers;
    let vals = contents.registers;
    PlaceContents {
        registers: Registers {
            a: given(places.a, values, vals.a),
            b: given(places.b, values, vals.b),
            c: given(places.c, values, vals.c),
            d: given(places.d, values, vals.d),
            e: given(places.e, values, vals.e),
            h: given(places.h, values, vals.h),
            l: given(places.l, values, vals.l),
        },
        memory: given(byte.address.is_some(), values, contents.memory),
    }
}

#[tactic(auto, unfolding(crate::specs::Sides::narrowed))]
fn after_test(
    byte: &OneByte,
    condition: Condition,
    contents: &PlaceContents,
) -> Option<PlaceContents>
    ensures { result ≡ Sides.narrowed byte.now condition contents.now }
{
    let Some(test) = byte.test else {
        return Some(*contents);
    };
    if !is_asked(test, condition) {
        return Some(*contents);
    }
    let values = side_of(test, condition, shared(byte, contents)?)?;
    Some(with_byte(byte, values, contents))
}

/// What registers and memory hold on the side of a conditional instruction where its condition is met: where the flag was tested
/// of the byte, each of its places gets the values that all share, the least to the greatest that the side leaves, with their low
/// bits. `None` where no value is left.
#[tactic(auto, using(crate::proofs::SideLaws::narrowed_sound, crate::proofs::SideLaws::narrowed_cuts))]
pub fn narrowed(
    byte: &OneByte,
    condition: Condition,
    contents: &PlaceContents,
) -> Option<PlaceContents>
    ensures exact { result ≡ Sides.narrowed byte.now condition contents.now }
    ensures sound { IsSoundNarrowing byte.now condition contents.now result }
    ensures cuts { IfSome result (IsCut byte.now contents.now) }
{
    after_test(byte, condition, contents)
}
