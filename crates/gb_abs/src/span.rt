//! The addresses that an access may meet, as one interval.

ghost use Rattle.std.specs.Prelude.{◌≡◌, ◌≤◌};
ghost use Rattle.gb_abs.specs.Span.{one, pair_span, is_one, is_inside, may_meet, counts};

use gb_domain::LowBits;
use gb_domain::low_bits::{are_congruent, none};
use gb_domain::types::Val;

/// Addresses, the last one included. Where several may be stored to, only those count that have the low bits.
#[derive(Clone, Copy, PartialEq, Eq)]
pub struct Span {
    pub first: u16,
    pub last: u16,
    pub low: LowBits,
}

impl Span {
    /// An address alone.
    pub fn one(address: u16) -> Span
        ensures { result ≡ one address }
    {
        Span {
            first: address,
            last: address,
            low: none(),
        }
    }

    /// The addresses in a pair of registers: from both least bytes to both greatest.
    #[tactic(auto, unfolding(crate::specs::Span::pair_span))]
    pub fn of_pair(high: &Val, low: &Val) -> Span
        ensures { result ≡ pair_span high.now low.now }
    {
        Span {
            first: u16::from_be_bytes([high.lo, low.lo]),
            last: u16::from_be_bytes([high.hi, low.hi]),
            low: none(),
        }
    }

    /// Whether it is one address.
    pub fn is_one(self) -> bool
        ensures { result ≡ is_one self }
    {
        self.first == self.last
    }

    /// Whether an address is one of them, and has the low bits.
    pub fn counts(self, address: u16) -> bool
        ensures { result ≡ counts self address }
    {
        self.first <= address
            && address <= self.last
            && are_congruent(self.low.count, address, self.low.bits.into())
    }

    /// Whether all addresses lie from first to last.
    pub fn is_inside(self, first: u16, last: u16) -> bool
        ensures { result ≡ is_inside first last self }
    {
        first <= self.first && self.last <= last
    }

    /// Whether an address may lie from first to last.
    pub fn may_meet(self, first: u16, last: u16) -> bool
        ensures { result ≡ may_meet first last self }
    {
        self.first <= last && first <= self.last
    }
}
