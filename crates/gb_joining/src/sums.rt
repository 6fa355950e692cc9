//! Sums of a pair and what its link reads, times the factor: words that stand one after another, modulo 65,536.

use crate::relating::KnownRelations;
use gb_verify::{Bounds, Other, Val};

/// The first word, and how many stand after it.
#[derive(Clone, Copy, PartialEq, Eq)]
pub struct Sums {
    pub first: u16,
    pub width: u16,
}

impl Sums {
    /// The words of an interval.
    pub fn of(bounds: Bounds) -> Option<Sums> {
        Some(Sums {
            first: bounds.first,
            width: bounds.last.checked_sub(bounds.first)?,
        })
    }
}

/// Sums where the pair is one of some words, and what is read lies in bounds.
pub fn sums_in(pair: Sums, factor: u16, other: Bounds) -> Option<Sums> {
    let is_rising = factor < 0x8000;
    let (size, end) = if is_rising {
        (factor, other.first)
    } else {
        (factor.wrapping_neg(), other.last)
    };
    let spread = size.checked_mul(other.last.checked_sub(other.first)?)?;
    Some(Sums {
        first: pair.first.wrapping_add(factor.wrapping_mul(end)),
        width: pair.width.checked_add(spread)?,
    })
}

/// From the first sums on, as far as it takes to hold the others too.
fn from_first(a: Sums, b: Sums) -> Option<Sums> {
    let width = b.first.wrapping_sub(a.first).checked_add(b.width)?;
    Some(Sums {
        first: a.first,
        width: width.max(a.width),
    })
}

/// The least sums that hold both.
pub fn hull_of(a: Sums, b: Sums) -> Option<Sums> {
    match (from_first(a, b), from_first(b, a)) {
        (Some(x), Some(y)) if y.width < x.width => Some(y),
        (Some(x), _) => Some(x),
        (None, y) => y,
    }
}

/// The words that a byte may be.
fn bounds_of_byte(val: Val) -> Bounds {
    Bounds {
        first: u16::from(val.lo),
        last: u16::from(val.hi),
    }
}

impl KnownRelations<'_> {
    /// The bounds of what a link reads.
    pub fn other_bounds(&self, other: Other) -> Bounds {
        match other {
            Other::Pair(pair) => self.bounds(pair),
            Other::Register(register) => bounds_of_byte(self.registers.get(register)),
            Other::Cell(address) => bounds_of_byte(self.byte_at(address)),
            Other::Nothing => Bounds { first: 0, last: 0 },
        }
    }
}
