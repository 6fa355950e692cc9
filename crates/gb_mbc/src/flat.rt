//! Cartridges without a controller.

ghost use Rattle.std.specs.Prelude.{◌≡◌, false};

use crate::mapper::Mapper;
use gb_ops::machine::Banks;

/// A cartridge without a controller: two ROM banks, no registers, no gate.
#[derive(Clone, Copy, PartialEq, Eq)]
pub struct Flat;

impl Mapper for Flat {
    ghost use Rattle.gb_ops.specs.Cartridge.{banks_at_power_up};
    ghost use Rattle.gb_mbc.specs.Controllers.{flat_features};

    ghost features = { λ s. flat_features };

    ghost registers = { λ s. banks_at_power_up };

    #[tactic(auto, unfolding(crate::specs::Controllers::registers_after, crate::specs::Controllers::is_window))]
    fn write(&mut self, _address: u16, _value: u8) {}

    #[tactic(auto, unfolding(crate::specs::Controllers::low_bank, gb_ops::specs::Cartridge::low_bank_number))]
    fn low_bank(&self) -> u16 {
        0
    }

    #[tactic(auto, unfolding(crate::specs::Controllers::high_bank, gb_ops::specs::Cartridge::high_bank_number))]
    fn high_bank(&self) -> u16 {
        1
    }

    #[tactic(auto, unfolding(crate::specs::Controllers::ram_bank))]
    fn ram_bank(&self) -> Option<u8> {
        None
    }

    fn gate(&self) -> bool {
        false
    }

    fn banks(&self) -> Banks {
        Banks {
            bank: 1,
            second: 0,
            gate: false,
            mode: false,
        }
    }
}
