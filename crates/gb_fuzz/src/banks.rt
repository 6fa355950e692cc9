//! What a state says of the controller's registers.

use crate::reached::ReachedState;
use crate::values::{REGISTERS, may_be};
use gb_cpu::Bus;
use gb_domain::types::Setting;
use gb_domain::{BankShadows, Ctl, KeptBanks, Shadows};
use gb_mbc::{Controller, Mapper};
use gb_ops::machine::Banks;

/// An address of the first window.
const FIRST_WINDOW: u16 = 0x2000;

/// An address of the second window. MBC5 has the ninth bit of the bank there.
fn second_window(controller: &Controller) -> u16 {
    match controller {
        Controller::Mbc5(_) => 0x3000,
        _ => 0x4000,
    }
}

/// Whether a bank is in its bounds. MBC5 has two registers for it, each with bounds of its own by the rules of version 4.
fn is_bank(bank: u16, ctl: &Ctl, has_parts: bool) -> bool {
    let low = bank % 256;
    ctl.bank_lo <= bank
        && bank <= ctl.bank_hi
        && (!has_parts || ctl.bank_lo % 256 <= low && low <= ctl.bank_hi % 256)
}

/// Whether what main keeps of the controller is what it was at power-up.
fn are_kept(banks: &Banks, kept: KeptBanks) -> bool {
    (!kept.bank || banks.bank % 256 == 1)
        && (!kept.high_bank || banks.bank / 256 == 0)
        && (!kept.second || banks.second == 0)
        && (!kept.gate || !banks.gate)
        && (!kept.mode || !banks.mode)
}

/// Whether a byte that is stored in a window would leave the controller as it is.
fn leaves(controller: &Controller, window: u16, byte: u8) -> bool {
    let mut after = controller.copied();
    after.write(window, byte);
    after.banks() == controller.banks()
}

impl ReachedState<'_> {
    /// Whether the controller's registers are in their bounds and sets. The memory's controller has to show the same bank.
    pub fn keeps_controller(&self, setting: Setting, ctl: &Ctl) -> bool {
        let banks = self.controller.banks();
        let has_parts = setting.is_whole && matches!(self.controller, Controller::Mbc5(_));
        self.controller.high_bank() == self.memory.shown_bank(0x4000)
            && self.controller.gate() == self.memory.gate()
            && is_bank(banks.bank, ctl, has_parts)
            && ctl.second_lo <= banks.second
            && banks.second <= ctl.second_hi
            && may_be(banks.gate, ctl.gate)
            && may_be(banks.mode, ctl.mode)
            && (!setting.is_main || are_kept(&banks, ctl.kept))
    }

    /// Whether each of a window's places holds a byte that would leave the controller as it is.
    fn keeps_places(&mut self, window: u16, places: &Shadows) -> bool {
        if let Some(address) = places.address {
            let byte = self.memory.read(address);
            if !leaves(&self.controller, window, byte) {
                return false;
            }
        }
        for register in REGISTERS {
            let byte = self.processor.registers.get(register);
            if places.registers.get(register) && !leaves(&self.controller, window, byte) {
                return false;
            }
        }
        true
    }

    pub fn keeps_shadows(&mut self, shadows: &BankShadows) -> bool {
        let second = second_window(&self.controller);
        self.keeps_places(FIRST_WINDOW, &shadows.first)
            && self.keeps_places(second, &shadows.second)
    }
}
