//! Where code is. In one game each bank's code begins at 4000, so that an address alone says too little.

use gb_verify::{Ctl, Rom, known_bank};

/// An address with the ROM bank that is shown there, as `bank:address` in the files of symbols.
#[derive(Clone, Copy, PartialEq, Eq, PartialOrd, Ord, Hash)]
pub struct CodePoint {
    pub address: u16,
    /// 0 for RAM; None where the bank isn't known.
    pub bank: Option<u16>,
}

impl CodePoint {
    /// What an address means to a controller.
    pub fn of(rom: &Rom<'_>, ctl: &Ctl, address: u16) -> CodePoint {
        CodePoint {
            address,
            bank: known_bank(rom, ctl, address),
        }
    }

    /// A number that no other point has.
    pub fn number(self) -> u64 {
        let bank = match self.bank {
            Some(bank) => u64::from(bank).saturating_add(1),
            None => 0,
        };
        bank << 16 | u64::from(self.address)
    }
}
