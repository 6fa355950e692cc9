//! The joypad (Pan Docs: Joypad Input).

ghost use Rattle.std.specs.Prelude.{◌≡◌, ◌<◌, ◌≤◌, true};
ghost use Rattle.std.specs.Int.RustNames.{bit_and};
ghost use Rattle.gb_timer.specs.Joypad.{Pad, key_bits, is_low, level, is_requested, joyp};

use crate::bits::is_set;
use crate::irqs::Keys;
use bitflags::Flags;
use std::marker::Model;

/// The register FF00 and the keys that are held.
#[derive(Clone, Copy)]
pub struct Joypad {
    /// Bits 5 and 4 of FF00, as they were written.
    select: u8,
    keys: Keys,
}

impl Model for Joypad {
    ghost use Rattle.std.specs.Prelude.{◌≤◌};
    ghost use Rattle.gb_timer.specs.Joypad.{Pad, key_bits};

    ghost Value = { Pad };

    ghost view = { λ p. record { select = p.select; keys = key_bits p.keys } };

    ghost inverse = { λ p. record { select = p.select; keys = record { 0 = p.keys } } };

    ghost invariant = { λ p. p.select ≤ 0x30 };
}

impl Joypad {
    /// The joypad at power-up: both groups selected, no key held.
    pub fn new() -> Joypad
        ensures { result ≡ record { select = 0; keys = 0 } }
    {
        Joypad {
            select: 0,
            keys: Keys::empty(),
        }
    }

    #[tactic(auto, unfolding(crate::specs::Joypad::is_low))]
    fn is_low(&self, line: u8) -> bool
        requires { line < 4 }
        ensures { result ≡ is_low self.now line }
    {
        let keys = self.keys.bits();
        let button = !is_set(self.select, 5) && is_set(keys, line);
        let direction = !is_set(self.select, 4) && is_set(keys, line + 4);
        button || direction
    }

    #[tactic(auto, unfolding(crate::specs::Joypad::level))]
    fn level(&self, line: u8) -> u8
        requires { line < 4 }
        ensures level { result ≡ level self.now line }
        ensures bit { result ≤ 1 }
    {
        if self.is_low(line) { 0 } else { 1 }
    }

    #[tactic(auto, unfolding(crate::specs::Joypad::is_requested))]
    fn is_requested_since(&self, before: &Joypad) -> bool
        ensures { result ≡ is_requested before.now self.now }
    {
        let lines = [0, 1, 2, 3];
        lines
            .iter()
            .copied()
            .any(|line| !before.is_low(line) && self.is_low(line))
    }

    /// Whether these keys are held.
    #[inline]
    pub fn holds(&self, keys: Keys) -> bool
        ensures { result ≡ true → self.now.keys ≡ key_bits keys }
    {
        self.keys == keys
    }

    /// The keys that are held from now on. True: the joypad's interrupt is requested, since one of FF00's bits 3 to 0 fell from 1 to 0.
    #[inline]
    #[tactic(auto, using(crate::proofs::Holding::unchanged))]
    pub fn set(&mut self, keys: Keys) -> bool
        ensures state { self.new ≡ record self.old { keys = key_bits keys } }
        ensures request { result ≡ is_requested self.old self.new }
    {
        if self.keys == keys {
            return false;
        }
        let before = *self;
        self.keys = keys;
        self.is_requested_since(&before)
    }

    /// A write to FF00, of which bits 5 and 4 stay. True: the joypad's interrupt is requested, as by `set`.
    pub fn select(&mut self, value: u8) -> bool
        ensures state { self.new ≡ record self.old { select = bit_and value 0x30 } }
        ensures request { result ≡ is_requested self.old self.new }
    {
        let before = *self;
        self.select = value & 0x30;
        self.is_requested_since(&before)
    }

    /// What FF00 reads: bits 7 and 6 are 1, bits 5 and 4 as written; bits 3 to 0 are 0 where a selected group has its key held.
    #[tactic(auto, unfolding(crate::specs::Joypad::joyp))]
    pub fn read(&self) -> u8
        ensures { result ≡ joyp self.now }
    {
        0xC0 + self.select
            + 8 * self.level(3)
            + 4 * self.level(2)
            + 2 * self.level(1)
            + self.level(0)
    }
}
