//! MBC5.

ghost use Rattle.std.specs.Prelude.{◌≡◌, ◌<◌};
ghost use Rattle.gb_ops.specs.Cartridge;
ghost use Rattle.gb_mbc.specs.Controllers as Controllers;

use crate::mapper::{Mapper, cut};
use gb_header::Rom;
use gb_ops::machine::Banks;
use std::marker::Model;

/// MBC5: a bank of nine bits, written in two parts, a second register of four, and a gate.
#[derive(Drop)]
pub struct Mbc5 {
    rom_banks: u16,
    ram_banks: u8,
    bank: u16,
    second: u8,
    gate: bool,
    has_rumble: bool,
}

impl Model for Mbc5 {
    ghost use Rattle.std.specs.Prelude.{◌<◌, false};
    ghost use Rattle.gb_mbc.specs.Controllers.{Mbc5State};

    ghost Value = { Mbc5State };

    ghost view = { λ s. record {
      rom_banks = s.rom_banks;
      ram_banks = s.ram_banks;
      has_rumble = s.has_rumble;
      registers = record { bank = s.bank; second = s.second; gate = s.gate; mode = false };
    } };

    ghost invariant = { λ s. (0 < s.rom_banks) × (s.bank < 512) };
}

impl Mbc5 {
    /// The controller at power-up, over a cartridge's ROM and RAM.
    pub fn new(rom: &Rom<'_>) -> Mbc5
        ensures { result ≡ record { rom_banks = Cartridge.rom_banks rom.now; ram_banks = Cartridge.ram_banks rom.now; has_rumble = Cartridge.type_has_rumble (Cartridge.type_byte rom.now); registers = Cartridge.banks_at_power_up } }
    {
        Mbc5 {
            rom_banks: rom.banks(),
            ram_banks: rom.ram_banks(),
            bank: 1,
            second: 0,
            gate: false,
            has_rumble: rom.has_rumble(),
        }
    }
}

impl Mbc5 {
    /// A controller like it.
    pub(crate) fn copied(&self) -> Mbc5
        ensures { result ≡ self.now }
    {
        Mbc5 {
            rom_banks: self.rom_banks,
            ram_banks: self.ram_banks,
            bank: self.bank,
            second: self.second,
            gate: self.gate,
            has_rumble: self.has_rumble,
        }
    }
}

impl Mapper for Mbc5 {
    ghost use Rattle.gb_mbc.specs.Controllers.{mbc5_features};

    ghost features = { mbc5_features };

    ghost registers = { λ s. s.registers };

    #[tactic(auto, unfolding(crate::specs::Controllers::registers_after, crate::specs::Controllers::is_window, gb_ops::specs::Cartridge::mbc5_after))]
    fn write(&mut self, address: u16, value: u8) {
        match address {
            0x0000..=0x1FFF => self.gate = value % 16 == 0x0A,
            0x2000..=0x2FFF => self.bank = self.bank / 256 * 256 + u16::from(value),
            0x3000..=0x3FFF => self.bank = u16::from(value % 2) * 256 + self.bank % 256,
            0x4000..=0x5FFF => self.second = value % 16,
            0x6000..=0xFFFF => {}
        }
    }

    #[tactic(auto, unfolding(crate::specs::Controllers::low_bank, gb_ops::specs::Cartridge::low_bank_number))]
    fn low_bank(&self) -> u16 {
        cut(0, self.rom_banks)
    }

    #[tactic(auto, unfolding(crate::specs::Controllers::high_bank, gb_ops::specs::Cartridge::high_bank_number))]
    fn high_bank(&self) -> u16 {
        cut(self.bank, self.rom_banks)
    }

    #[tactic(auto, unfolding(crate::specs::Controllers::ram_bank, crate::specs::Controllers::ram_bank_number))]
    fn ram_bank(&self) -> Option<u8> {
        if self.ram_banks == 0 {
            return None;
        }
        let number = if self.has_rumble {
            self.second % 8
        } else {
            self.second
        };
        Some(number % self.ram_banks)
    }

    fn gate(&self) -> bool {
        self.gate
    }

    fn banks(&self) -> Banks {
        Banks {
            bank: self.bank,
            second: self.second,
            gate: self.gate,
            mode: false,
        }
    }
}
