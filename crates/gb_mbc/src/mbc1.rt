//! MBC1.

ghost use Rattle.std.specs.Prelude.{◌≡◌, ◌<◌};
ghost use Rattle.gb_ops.specs.Cartridge;
ghost use Rattle.gb_mbc.specs.Controllers as Controllers;

use crate::mapper::{Mapper, cut};
use gb_header::Rom;
use gb_ops::machine::Banks;
use std::marker::Model;

/// MBC1: a bank of five bits, a second register of two, a gate and a mode.
#[derive(Drop)]
pub struct Mbc1 {
    rom_banks: u16,
    ram_banks: u8,
    bank: u8,
    second: u8,
    gate: bool,
    mode: bool,
}

impl Model for Mbc1 {
    ghost use Rattle.std.specs.Prelude.{◌<◌};
    ghost use Rattle.gb_mbc.specs.Controllers.{Mbc1State};

    ghost Value = { Mbc1State };

    ghost view = { λ s. record {
      rom_banks = s.rom_banks;
      ram_banks = s.ram_banks;
      registers = record { bank = s.bank; second = s.second; gate = s.gate; mode = s.mode };
    } };

    ghost invariant = { λ s. 0 < s.rom_banks };
}

impl Mbc1 {
    /// The controller at power-up, over a cartridge's ROM and RAM.
    pub fn new(rom: &Rom<'_>) -> Mbc1
        ensures { result ≡ record { rom_banks = Cartridge.rom_banks rom.now; ram_banks = Cartridge.ram_banks rom.now; registers = Cartridge.banks_at_power_up } }
    {
        Mbc1 {
            rom_banks: rom.banks(),
            ram_banks: rom.ram_banks(),
            bank: 1,
            second: 0,
            gate: false,
            mode: false,
        }
    }
}

impl Mbc1 {
    /// A controller like it.
    pub(crate) fn copied(&self) -> Mbc1
        ensures { result ≡ self.now }
    {
        Mbc1 {
            rom_banks: self.rom_banks,
            ram_banks: self.ram_banks,
            bank: self.bank,
            second: self.second,
            gate: self.gate,
            mode: self.mode,
        }
    }
}

impl Mapper for Mbc1 {
    ghost use Rattle.gb_mbc.specs.Controllers.{mbc1_features};

    ghost features = { mbc1_features };

    ghost registers = { λ s. s.registers };

    #[tactic(auto, unfolding(crate::specs::Controllers::registers_after, crate::specs::Controllers::is_window, gb_ops::specs::Cartridge::mbc1_after))]
    fn write(&mut self, address: u16, value: u8) {
        match address {
            0x0000..=0x1FFF => self.gate = value % 16 == 0x0A,
            0x2000..=0x3FFF => self.bank = if value % 32 == 0 { 1 } else { value % 32 },
            0x4000..=0x5FFF => self.second = value % 4,
            0x6000..=0x7FFF => self.mode = value % 2 == 1,
            0x8000..=0xFFFF => {}
        }
    }

    #[tactic(auto, unfolding(crate::specs::Controllers::low_bank, gb_ops::specs::Cartridge::low_bank_number))]
    fn low_bank(&self) -> u16 {
        let number = if self.mode {
            32 * u16::from(self.second)
        } else {
            0
        };
        cut(number, self.rom_banks)
    }

    #[tactic(auto, unfolding(crate::specs::Controllers::high_bank, gb_ops::specs::Cartridge::high_bank_number))]
    fn high_bank(&self) -> u16 {
        cut(
            32 * u16::from(self.second) + u16::from(self.bank),
            self.rom_banks,
        )
    }

    #[tactic(auto, unfolding(crate::specs::Controllers::ram_bank, crate::specs::Controllers::ram_bank_number))]
    fn ram_bank(&self) -> Option<u8> {
        if self.ram_banks == 0 {
            return None;
        }
        let number = if self.mode { self.second } else { 0 };
        Some(number % self.ram_banks)
    }

    fn gate(&self) -> bool {
        self.gate
    }

    fn banks(&self) -> Banks {
        Banks {
            bank: u16::from(self.bank),
            second: self.second,
            gate: self.gate,
            mode: self.mode,
        }
    }
}
