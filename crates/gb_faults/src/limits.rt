//! What the faults of an access depend on besides its address.

ghost use Rattle.std.specs.Prelude.{◌≡◌};
ghost use Rattle.gb_ops.specs.Cartridge as Cartridge;
ghost use Rattle.gb_ops.specs.Memory as Memory;
ghost use Rattle.gb_ops.specs.Memory.{wrote};
ghost use Rattle.gb_ops.specs.Faults as Spec;
ghost use Rattle.gb_faults.specs.Limits.{limits, limits_of, has_gate};

use gb_ops::machine::{Kind, Mapped};
use gb_ops::map::mapped_at;
use std::marker::Model;

/// The cartridge, whether the gate to its RAM is open, and the M-cycles that an OAM transfer has left.
#[derive(Drop)]
pub struct Limits<'r> {
    rom: &'r [u8],
    kind: Kind,
    has_ram_or_clock: bool,
    gate: bool,
    count: u8,
}

impl<'r> Model for Limits<'r> {
    ghost use Rattle.std.specs.Prelude.{◌≡◌};
    ghost use Rattle.gb_ops.specs.Cartridge as Cartridge;
    ghost use Rattle.gb_ops.specs.Memory.{View};
    ghost use Rattle.gb_faults.specs.Limits.{limits};

    ghost Value = { View };

    ghost view = { λ l. limits l.rom.now l.gate l.count };

    ghost invariant = { λ l. (l.kind ≡ Cartridge.kind_of l.rom.now) × (l.has_ram_or_clock ≡ Cartridge.has_ram_or_clock l.rom.now) };
}

impl<'r> Limits<'r> {
    /// The limits where the gate is so, and a transfer has so many M-cycles left.
    pub fn new(
        rom: &'r [u8],
        kind: Kind,
        has_ram_or_clock: bool,
        gate: bool,
        count: u8,
    ) -> Limits<'r>
        requires kind { kind ≡ Cartridge.kind_of rom.now }
        requires has { has_ram_or_clock ≡ Cartridge.has_ram_or_clock rom.now }
        ensures { result ≡ limits rom.now gate count }
    {
        Limits {
            rom,
            kind,
            has_ram_or_clock,
            gate,
            count,
        }
    }

    /// Whether a transfer closes an address.
    #[tactic(auto, unfolding(crate::specs::Limits::limits, gb_ops::specs::Memory::is_closed))]
    pub(crate) fn is_closed(&self, address: u16) -> bool
        ensures { result ≡ Memory.is_closed self.now.storage address }
    {
        self.count != 0 && !matches!(mapped_at(address), Mapped::HighRam(_))
    }

    /// Whether cartridge RAM can't be reached: the gate is closed, or there is neither RAM nor a clock.
    #[tactic(auto, unfolding(crate::specs::Limits::limits, gb_ops::specs::Faults::is_ram_closed))]
    pub(crate) fn is_ram_closed(&self) -> bool
        ensures { result ≡ Spec.is_ram_closed self.now }
    {
        !(self.gate && self.has_ram_or_clock)
    }

    /// These limits with another gate.
    #[tactic(auto, unfolding(crate::specs::Limits::limits))]
    fn with_gate(&self, gate: bool) -> Limits<'r>
        ensures { result ≡ limits self.now.rom gate self.now.storage.count }
    {
        Limits {
            rom: self.rom,
            kind: self.kind,
            has_ram_or_clock: self.has_ram_or_clock,
            gate,
            count: self.count,
        }
    }

    /// Whether the controller has its gate at an address.
    fn has_gate(&self, address: u16) -> bool
        ensures { result ≡ has_gate (Cartridge.kind_of self.now.rom) address }
    {
        match self.kind {
            Kind::Rom => false,
            _ => address < 0x2000,
        }
    }

    /// The limits after a write.
    pub(crate) fn after_write(&self, address: u16, value: u8) -> Limits<'r>
        ensures { result ≡ limits_of (wrote self.now address value) }
    {
        if self.is_closed(address) {
            return self.with_gate(self.gate);
        }
        if !self.has_gate(address) {
            return self.with_gate(self.gate);
        }
        self.with_gate(value % 16 == 10)
    }
}
