//! What a state knows of its pointers, of the controller's windows, and of bytes in RAM.

ghost use Rattle.std.specs.Prelude.{◌≡◌, ◌+◌, take, drop};
ghost use Rattle.gb_summaries.specs.Known as Known;

use gb_domain::pairs::{Bounds, WordPair};
use gb_domain::summary::Fact;
use gb_domain::types::Ctl;
use gb_ops::machine::Kind;
use gb_ram_bounds::Pointers;
use gb_relations::{BankWindow, Values, bounds_of};

/// An address of FF00 to FFFF by its low byte.
pub(crate) fn high(low: u8) -> u16
    ensures { result ≡ 0xFF00 + low }
{
    0xFF00 + u16::from(low)
}

/// The bounds of pairs, and of FF00+C.
#[tactic(auto, unfolding(crate::specs::Known::pointer_bounds))]
pub fn pointer_bounds(values: &Values) -> Pointers<Bounds>
    ensures { result ≡ Known.pointer_bounds values.now }
{
    Pointers {
        bc: bounds_of(WordPair::Bc, values),
        de: bounds_of(WordPair::De, values),
        hl: bounds_of(WordPair::Hl, values),
        high_c: Bounds {
            first: high(values.registers.c.lo),
            last: high(values.registers.c.hi),
        },
    }
}

/// The bounds of a window's register.
#[tactic(auto, unfolding(crate::specs::Known::window_bounds))]
pub fn window_bounds(kind: Kind, window: BankWindow, ctl: &Ctl) -> Bounds
    ensures { result ≡ Known.window_bounds kind window ctl.now }
{
    match (kind, window) {
        (Kind::Mbc5, BankWindow::First) => Bounds {
            first: ctl.bank_lo % 256,
            last: ctl.bank_hi % 256,
        },
        (Kind::Mbc5, BankWindow::Second) => Bounds {
            first: ctl.bank_lo / 256,
            last: ctl.bank_hi / 256,
        },
        (_, BankWindow::First) => Bounds {
            first: ctl.bank_lo,
            last: ctl.bank_hi,
        },
        (_, BankWindow::Second) => Bounds {
            first: ctl.second_lo.into(),
            last: ctl.second_hi.into(),
        },
    }
}

/// Registers of the controller that are within a state's bounds are so in its windows.
#[tactic(auto, using(crate::proofs::KnownLaws::windows_within))]
pub fn windows_are_within()
    ensures { Known.WindowsAreWithin }
{}

/// So many facts, from the first one on; all where there are fewer.
pub(crate) fn first_of(facts: &[Fact], count: u16) -> &[Fact]
    ensures { result.now ≡ take count facts.now }
{
    let count = usize::from(count);
    if count <= facts.len() {
        facts.split_at(count).0
    } else {
        facts
    }
}

/// The facts behind so many; none where there are fewer.
pub(crate) fn behind(facts: &[Fact], count: u16) -> &[Fact]
    ensures { result.now ≡ drop count facts.now }
{
    let count = usize::from(count);
    if count <= facts.len() {
        &facts[count..]
    } else {
        &[]
    }
}
