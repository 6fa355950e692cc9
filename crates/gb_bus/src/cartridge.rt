//! The cartridge behind the bus: its ROM, its RAM and its clock.

ghost use Rattle.std.specs.Prelude.{◌≡◌, ◌<◌, ◌≤◌};
ghost use Rattle.gb_ops.specs.Memory.{rom_byte};
ghost use Rattle.gb_ops.specs.Cartridge.{shown_bank, ram_banks};
ghost use Rattle.gb_bus.specs.CartridgeRam as CartridgeRam;
ghost use Rattle.gb_mbc.specs.Below.gb_header.Header.{IsCartridge};

use crate::memory::Memory;
use gb_mbc::{ClockRegister, Mapper};

/// What the gate and the controller's registers show at A000-BFFF.
#[derive(Clone, Copy, PartialEq, Eq)]
pub enum Behind {
    /// A bank of the cartridge's RAM.
    Ram(u8),
    Clock(ClockRegister),
    /// It reads FF, and writes are dropped.
    Nothing,
}

impl<'a> Memory<'a> {
    /// The bytes of the cartridge's file.
    pub fn cartridge(&self) -> &'a [u8]
        ensures bytes { result.now ≡ self.now.view.rom }
        ensures cartridge { IsCartridge result.now }
    {
        self.rom
    }

    /// Whether the gate to cartridge RAM is open.
    pub fn gate(&self) -> bool
        ensures { result ≡ self.now.view.storage.banks.gate }
    {
        self.controller.gate()
    }
}

impl Memory<'_> {
    /// The ROM bank shown at an address below 8000.
    #[tactic(auto, using(crate::proofs::Cartridges::low_is_shown, crate::proofs::Cartridges::high_is_shown))]
    pub fn shown_bank(&self, address: u16) -> u16
        requires { address < 0x8000 }
        ensures { result ≡ shown_bank self.now.view.rom self.now.view.storage.banks address }
    {
        if address < 0x4000 {
            self.low_bank
        } else {
            self.high_bank
        }
    }

    /// The ROM's byte at an address below 8000.
    #[tactic(auto, using(crate::proofs::Cartridges::rom_laws))]
    #[inline(always)]
    pub fn rom_byte(&self, address: u16) -> u8
        requires { address < 0x8000 }
        ensures { result ≡ rom_byte self.now.view.rom (shown_bank self.now.view.rom self.now.view.storage.banks address) address }
    {
        let bank = usize::from(self.shown_bank(address));
        self.rom[0x4000 * bank + usize::from(address % 0x4000)]
    }

    #[tactic(auto, using(crate::proofs::Cartridges::ram_is_held), unfolding(crate::specs::CartridgeRam::behind_gate))]
    fn behind_gate(&self) -> Behind
        ensures shown { result ≡ CartridgeRam.behind_gate self.now }
        ensures held { CartridgeRam.IsHeld (ram_banks self.now.view.rom) result }
    {
        if !self.controller.gate() {
            return Behind::Nothing;
        }
        if let Some(bank) = self.controller.ram_bank() {
            return Behind::Ram(bank);
        }
        match self.controller.clock_register() {
            Some(register) => Behind::Clock(register),
            None => Behind::Nothing,
        }
    }

    /// What A000-BFFF reads.
    #[tactic(auto, unfolding(crate::specs::CartridgeRam::cartridge_byte))]
    pub(crate) fn cartridge_byte(&self, address: u16) -> u8
        requires least { 0xA000 ≤ address }
        requires most { address < 0xC000 }
        ensures { result ≡ CartridgeRam.cartridge_byte self.now address }
    {
        match self.behind_gate() {
            Behind::Ram(bank) => self.cartridge_ram[ram_offset(bank, address)],
            Behind::Clock(register) => self.clock.get(register),
            Behind::Nothing => 0xFF,
        }
    }

    /// A write to A000-BFFF.
    #[tactic(auto, unfolding(crate::specs::CartridgeRam::cartridge_written))]
    pub(crate) fn write_cartridge(&mut self, address: u16, value: u8)
        requires least { 0xA000 ≤ address }
        requires most { address < 0xC000 }
        ensures { self.new ≡ CartridgeRam.cartridge_written self.old address value }
    {
        match self.behind_gate() {
            Behind::Ram(bank) => self.cartridge_ram[ram_offset(bank, address)] = value,
            Behind::Clock(register) => self.clock.put(register, value),
            Behind::Nothing => {}
        }
    }
}

/// Where a byte of a RAM bank stands in the RAM.
fn ram_offset(bank: u8, address: u16) -> usize
    requires least { 0xA000 ≤ address }
    requires most { address < 0xC000 }
    ensures { result ≡ CartridgeRam.ram_offset bank address }
{
    0x2000 * usize::from(bank) + usize::from(address - 0xA000)
}
