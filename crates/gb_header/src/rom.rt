//! A cartridge, in the bytes of its file.

ghost use Rattle.std.specs.Prelude.{◌≡◌, ◌+◌, ◌*◌, ◌^◌, ◌<◌, ◌≤◌, length, slice_index, IsOk, IfErr, ◌↔◌};
ghost use Rattle.gb_ops.specs.Cartridge;
ghost use Rattle.gb_ops.specs.Memory.{rom_byte};
ghost use Rattle.gb_ops.specs.declared.machine.Kind.TheVariants as kind;
ghost use Rattle.gb_header.specs.Header;

use crate::facts;
use crate::fault::HeaderFault;
use crate::faults::fault_of;
use gb_ops::machine::Kind;
use std::marker::Model;

/// A cartridge, in the bytes of its file, which it borrows.
#[derive(Drop)]
pub struct Rom<'a> {
    bytes: &'a [u8],
}

impl<'a> Model for Rom<'a> {
    ghost use Rattle.std.specs.Prelude.{List, ℕ};
    ghost use Rattle.gb_header.specs.Header.{IsCartridge};

    ghost Value = { List ℕ };

    ghost view = { λ rom. rom.bytes.now };

    ghost invariant = { λ rom. IsCartridge rom.bytes.now };
}

impl<'a> Rom<'a> {
    /// The cartridge in these bytes, or what is wrong with them.
    #[tactic(auto, using(crate::proofs::Laws::cartridge_laws), unfolding(crate::specs::Header::parsed))]
    pub fn parse(bytes: &'a [u8]) -> Result<Rom<'a>, HeaderFault>
        ensures exact { result ≡ Header.parsed bytes.now }
        ensures fault { IfErr result (λ f. Header.IsLowestFault bytes.now f) }
        ensures accepts { IsOk result ↔ Header.IsCartridge bytes.now }
    {
        match fault_of(bytes) {
            None => Ok(Rom { bytes }),
            Some(fault) => Err(fault),
        }
    }

    /// Its bytes.
    pub fn bytes(&self) -> &'a [u8]
        ensures bytes { result.now ≡ self.now }
        ensures cartridge { Header.IsCartridge self.now }
    {
        self.bytes
    }

    /// The byte that names its type.
    #[tactic(auto, using(crate::proofs::Laws::bank_laws))]
    pub fn type_byte(&self) -> u8
        ensures { result ≡ Cartridge.type_byte self.now }
    {
        self.bytes[facts::TYPE]
    }

    /// The kind of its controller. A cartridge without one has two banks.
    #[tactic(auto, using(crate::proofs::Laws::bank_laws))]
    pub fn kind(&self) -> Kind
        ensures kind { result ≡ Cartridge.kind_of self.now }
        ensures small { result ≡ kind.Rom → Cartridge.rom_banks self.now ≡ 2 }
        ensures fits { Cartridge.rom_banks self.now ≤ Header.greatest_rom_banks result }
    {
        facts::kind_of(self.bytes)
    }

    /// Its ROM banks of 16 KiB.
    #[tactic(auto, using(crate::proofs::Laws::bank_laws))]
    pub fn banks(&self) -> u16
        ensures banks { result ≡ Cartridge.rom_banks self.now }
        ensures power { result ≡ 2 * 2 ^ slice_index self.now 0x148 }
        ensures least { 2 ≤ result }
        ensures most { result ≤ 512 }
        ensures length { length self.now ≡ 0x4000 * result }
    {
        facts::rom_banks(self.bytes)
    }

    /// Its RAM banks of 8 KiB.
    #[tactic(auto, using(crate::proofs::Laws::bank_laws))]
    pub fn ram_banks(&self) -> u8
        ensures banks { result ≡ Cartridge.ram_banks self.now }
        ensures fits { result ≤ Header.greatest_ram_banks (Cartridge.kind_of self.now) (Cartridge.type_byte self.now) }
    {
        facts::ram_banks(self.bytes)
    }

    /// Whether it has a clock.
    #[tactic(auto, using(crate::proofs::Laws::bank_laws), unfolding(gb_ops::specs::Cartridge::has_clock))]
    pub fn has_clock(&self) -> bool
        ensures { result ≡ Cartridge.has_clock self.now }
    {
        facts::type_has_clock(self.bytes[facts::TYPE])
    }

    /// Whether it has a rumble motor.
    #[tactic(auto, using(crate::proofs::Laws::bank_laws))]
    pub fn has_rumble(&self) -> bool
        ensures { result ≡ Cartridge.type_has_rumble (Cartridge.type_byte self.now) }
    {
        facts::type_has_rumble(self.type_byte())
    }

    /// The header's checksum.
    #[tactic(auto, using(crate::proofs::Laws::bank_laws))]
    pub fn checksum(&self) -> u8
        ensures { result ≡ slice_index self.now 0x14D }
    {
        self.bytes[facts::CHECKSUM]
    }

    /// The byte at an address where this bank is shown.
    #[tactic(auto, using(crate::proofs::Laws::bank_laws))]
    pub fn byte(&self, bank: u16, address: u16) -> u8
        requires { bank < Cartridge.rom_banks self.now }
        ensures { result ≡ rom_byte self.now bank address }
    {
        self.bytes[0x4000 * bank as usize + address as usize % 0x4000]
    }
}
