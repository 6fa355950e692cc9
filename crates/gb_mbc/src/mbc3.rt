//! MBC3.

ghost use Rattle.std.specs.Prelude.{◌≡◌, ◌<◌, Some, None};
ghost use Rattle.gb_ops.specs.Cartridge;
ghost use Rattle.gb_mbc.specs.Controllers as Controllers;

use crate::clock::ClockRegister;
use crate::mapper::{Mapper, cut};
use gb_header::Rom;
use gb_ops::machine::Banks;
use std::marker::Model;

/// MBC3: a bank of seven bits, a second register that chooses a RAM bank or a clock register, and a gate.
#[derive(Drop)]
pub struct Mbc3 {
    rom_banks: u16,
    ram_banks: u8,
    bank: u8,
    second: u8,
    gate: bool,
    has_clock: bool,
}

impl Model for Mbc3 {
    ghost use Rattle.std.specs.Prelude.{◌<◌, false};
    ghost use Rattle.gb_mbc.specs.Controllers.{Mbc3State};

    ghost Value = { Mbc3State };

    ghost view = { λ s. record {
      rom_banks = s.rom_banks;
      ram_banks = s.ram_banks;
      has_clock = s.has_clock;
      registers = record { bank = s.bank; second = s.second; gate = s.gate; mode = false };
    } };

    ghost invariant = { λ s. 0 < s.rom_banks };
}

impl Mbc3 {
    /// The controller at power-up, over a cartridge's ROM and RAM.
    pub fn new(rom: &Rom<'_>) -> Mbc3
        ensures { result ≡ record { rom_banks = Cartridge.rom_banks rom.now; ram_banks = Cartridge.ram_banks rom.now; has_clock = Cartridge.has_clock rom.now; registers = Cartridge.banks_at_power_up } }
    {
        Mbc3 {
            rom_banks: rom.banks(),
            ram_banks: rom.ram_banks(),
            bank: 1,
            second: 0,
            gate: false,
            has_clock: rom.has_clock(),
        }
    }

    /// The clock register behind the gate, if there is a clock and the second register chooses one.
    #[tactic(auto, unfolding(crate::specs::Controllers::clock_register, crate::specs::Controllers::clock_register_at))]
    pub fn clock_register(&self) -> Option<ClockRegister>
        ensures { result ≡ Controllers.clock_register (Controllers.mbc3_features self.now) self.now.registers }
    {
        if !self.has_clock {
            return None;
        }
        match self.second {
            0x08 => Some(ClockRegister::Seconds),
            0x09 => Some(ClockRegister::Minutes),
            0x0A => Some(ClockRegister::Hours),
            0x0B => Some(ClockRegister::DayLow),
            0x0C => Some(ClockRegister::DayHigh),
            _ => None,
        }
    }
}

impl Mbc3 {
    /// A controller like it.
    pub(crate) fn copied(&self) -> Mbc3
        ensures { result ≡ self.now }
    {
        Mbc3 {
            rom_banks: self.rom_banks,
            ram_banks: self.ram_banks,
            bank: self.bank,
            second: self.second,
            gate: self.gate,
            has_clock: self.has_clock,
        }
    }
}

impl Mapper for Mbc3 {
    ghost use Rattle.gb_mbc.specs.Controllers.{mbc3_features};

    ghost features = { mbc3_features };

    ghost registers = { λ s. s.registers };

    #[tactic(auto, unfolding(crate::specs::Controllers::registers_after, crate::specs::Controllers::is_window, gb_ops::specs::Cartridge::mbc3_after))]
    fn write(&mut self, address: u16, value: u8) {
        match address {
            0x0000..=0x1FFF => self.gate = value % 16 == 0x0A,
            0x2000..=0x3FFF => self.bank = if value % 128 == 0 { 1 } else { value % 128 },
            0x4000..=0x5FFF => self.second = value,
            0x6000..=0xFFFF => {}
        }
    }

    #[tactic(auto, unfolding(crate::specs::Controllers::low_bank, gb_ops::specs::Cartridge::low_bank_number))]
    fn low_bank(&self) -> u16 {
        cut(0, self.rom_banks)
    }

    #[tactic(auto, unfolding(crate::specs::Controllers::high_bank, gb_ops::specs::Cartridge::high_bank_number))]
    fn high_bank(&self) -> u16 {
        cut(u16::from(self.bank), self.rom_banks)
    }

    #[tactic(auto, unfolding(crate::specs::Controllers::ram_bank, crate::specs::Controllers::ram_bank_number))]
    fn ram_bank(&self) -> Option<u8> {
        if self.ram_banks == 0 || self.second >= 4 {
            return None;
        }
        Some(self.second % self.ram_banks)
    }

    fn gate(&self) -> bool {
        self.gate
    }

    fn banks(&self) -> Banks {
        Banks {
            bank: u16::from(self.bank),
            second: self.second,
            gate: self.gate,
            mode: false,
        }
    }
}
