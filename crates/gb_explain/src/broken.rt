//! Finds the fact that a store breaks.

use crate::said::{ShownAddresses, ShownBytes};
use crate::unshown::any_of;
use gb_verify::gb_domain::values::interval_of;
use gb_verify::gb_domain::{Fact, StridedInterval, Val};
use gb_verify::gb_ram_bounds::facts::has_address;
use gb_verify::{AbsWrite, Program, Span, Successor, covers_val};
use std::fmt;

/// A store that may put other bytes at a fact's addresses. It prints as a sentence.
#[derive(Clone, Copy)]
pub struct BrokenFact {
    /// The fact's number.
    pub fact: u16,
    /// What it says of its bytes.
    pub allowed: StridedInterval,
    /// Where is stored, and what.
    pub first: u16,
    pub last: u16,
    pub stored: StridedInterval,
}

/// Whether a fact allows a byte.
fn is_allowed(fact: &Fact, val: &Val) -> bool {
    covers_val(val, &any_of(fact.value))
}

/// Whether a fact has one of these addresses.
fn is_reached(fact: &Fact, span: Span) -> bool {
    for address in span.first..=span.last {
        if has_address(fact, address) {
            return true;
        }
    }
    false
}

/// Whether a byte that is stored at one of these addresses isn't one that a fact allows.
fn is_breaking(fact: &Fact, span: Span, val: &Val) -> bool {
    !is_allowed(fact, val) && is_reached(fact, span)
}

/// Where is stored, and what, if it breaks a fact: of a word the byte that does.
fn breaking_store(fact: &Fact, write: AbsWrite) -> Option<(Span, Val)> {
    match write {
        AbsWrite::Byte(span, val) if is_breaking(fact, span, &val) => Some((span, val)),
        AbsWrite::Word(address, low, _) if is_breaking(fact, Span::one(address), &low) => {
            Some((Span::one(address), low))
        }
        AbsWrite::Word(address, _, high) => {
            let span = Span::one(address.wrapping_add(1));
            if is_breaking(fact, span, &high) {
                Some((span, high))
            } else {
                None
            }
        }
        AbsWrite::Byte(_, _) | AbsWrite::Nothing | AbsWrite::Push { .. } => None,
    }
}

/// How the store of an instruction breaks the fact with this number, if it does.
pub(crate) fn broken_fact(
    program: &Program<'_>,
    number: u16,
    successor: &Option<Successor<'_>>,
) -> Option<BrokenFact> {
    let Some(successor) = successor else {
        return None;
    };
    let fact = program.facts.get(usize::from(number))?;
    let (span, val) = breaking_store(fact, successor.write)?;
    Some(BrokenFact {
        fact: number,
        allowed: fact.value,
        first: span.first,
        last: span.last,
        stored: interval_of(val),
    })
}

impl fmt::Display for BrokenFact {
    fn fmt<W: fmt::Write>(&self, f: &mut fmt::Formatter<W>) -> fmt::Result {
        let BrokenFact {
            fact,
            first,
            last,
            ..
        } = *self;
        let stored = ShownBytes(self.stored);
        let allowed = ShownBytes(self.allowed);
        let addresses = ShownAddresses { first, last };
        write!(
            f,
            "  This store may put {stored} at {addresses}, and fact {fact} allows {allowed} there"
        )
    }
}
