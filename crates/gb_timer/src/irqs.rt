//! The sets of interrupts and of keys, and which interrupt comes next.

ghost use Rattle.std.specs.Prelude.{⊤, ◌≡◌, [], ◌∷◌, codes};
ghost use Rattle.gb_timer.specs.Interrupts.{irq_bits, highest_pending, next_irq};

use crate::bits::is_set;
use bitflags::{Flag, Flags, bitflag_items};

/// A set of interrupts, by the bits that they have in IE and IF (Pan Docs: Interrupts).
///
/// `from_bits_retain` keeps bits above 4, and the operators of `bitflags` carry them on: whoever reads a set takes bits 0 to 4 alone, as `next_irq` does.
#[derive(Clone, Copy, Debug, PartialEq, Eq)]
pub struct Irqs(u8);

bitflag_items! {
    impl Irqs: u8 {
        const VBLANK = 1;
        const STAT = 2;
        const TIMER = 4;
        const SERIAL = 8;
        const JOYPAD = 16;
    }
}

impl Flags for Irqs {
    type Bits = u8;

    ghost exact = { ⊤ };

    ghost table = { (codes "VBLANK", 1) ∷ (codes "STAT", 2) ∷ (codes "TIMER", 4) ∷ (codes "SERIAL", 8) ∷ (codes "JOYPAD", 16) ∷ [] };

    ghost set_of = { λ irqs. irqs.0 };

    fn flags<'a>() -> &'a [Flag<Irqs>] {
        Irqs::FLAGS
    }

    fn bits(&self) -> u8 {
        self.0
    }

    fn from_bits_retain(bits: u8) -> Irqs {
        Irqs(bits)
    }
}

/// A set of keys (the order of the bits is this project's own: one byte holds all keys of the joypad).
#[derive(Clone, Copy, Debug, PartialEq, Eq)]
pub struct Keys(u8);

bitflag_items! {
    impl Keys: u8 {
        const A = 1;
        const B = 2;
        const SELECT = 4;
        const START = 8;
        const RIGHT = 16;
        const LEFT = 32;
        const UP = 64;
        const DOWN = 128;
    }
}

impl Flags for Keys {
    type Bits = u8;

    ghost exact = { ⊤ };

    ghost table = { (codes "A", 1) ∷ (codes "B", 2) ∷ (codes "SELECT", 4) ∷ (codes "START", 8) ∷ (codes "RIGHT", 16) ∷ (codes "LEFT", 32) ∷ (codes "UP", 64) ∷ (codes "DOWN", 128) ∷ [] };

    ghost set_of = { λ keys. keys.0 };

    fn flags<'a>() -> &'a [Flag<Keys>] {
        Keys::FLAGS
    }

    fn bits(&self) -> u8 {
        self.0
    }

    fn from_bits_retain(bits: u8) -> Keys {
        Keys(bits)
    }
}

#[tactic(auto, unfolding(crate::specs::Interrupts::highest_pending))]
fn highest_pending(ie: u8, flags: u8) -> Option<u8>
    ensures { result ≡ highest_pending ie flags }
{
    let by_priority = [0, 1, 2, 3, 4];
    by_priority
        .iter()
        .copied()
        .find(|bit| is_set(ie, *bit) && is_set(flags, *bit))
}

/// The number of the interrupt that is dispatched, 0 to 4: where IME is on, the lowest bit that both IE (a whole byte as it is stored) and IF have. Bits above 4 count for nothing.
#[tactic(auto, unfolding(crate::specs::Interrupts::next_irq))]
pub fn next_irq(ime: bool, ie: u8, flags: Irqs) -> Option<u8>
    ensures { result ≡ next_irq ime ie (irq_bits flags) }
{
    if ime {
        highest_pending(ie, flags.bits())
    } else {
        None
    }
}
