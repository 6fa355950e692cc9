//! The controller of a cartridge.

ghost use Rattle.std.specs.Prelude.{◌≡◌, ◌<◌, Some, None};
ghost use Rattle.gb_ops.specs.Cartridge.{banks_at_power_up};
ghost use Rattle.gb_mbc.specs.Controllers as Controllers;
ghost use Rattle.gb_mbc.specs.Controller.{features, registers};

use crate::clock::ClockRegister;
use crate::flat::Flat;
use crate::mapper::Mapper;
use crate::mbc1::Mbc1;
use crate::mbc3::Mbc3;
use crate::mbc5::Mbc5;
use gb_header::Rom;
use gb_ops::machine::{Banks, Kind};

/// The controller of any cartridge.
#[derive(Drop)]
pub enum Controller {
    Flat(Flat),
    Mbc1(Mbc1),
    Mbc3(Mbc3),
    Mbc5(Mbc5),
}

impl Controller {
    /// A cartridge's controller at power-up.
    #[tactic(auto, using(crate::proofs::Featured::mbc1_laws, crate::proofs::Featured::mbc3_laws, crate::proofs::Featured::mbc5_laws, crate::proofs::Featured::flat_laws), unfolding(crate::specs::Controllers::features_of))]
    pub fn of(rom: &Rom<'_>) -> Controller
        ensures features { features result ≡ Controllers.features_of rom.now }
        ensures registers { registers result ≡ banks_at_power_up }
    {
        match rom.kind() {
            Kind::Rom => Controller::Flat(Flat),
            Kind::Mbc1 => Controller::Mbc1(Mbc1::new(rom)),
            Kind::Mbc3 => Controller::Mbc3(Mbc3::new(rom)),
            Kind::Mbc5 => Controller::Mbc5(Mbc5::new(rom)),
        }
    }

    /// A controller like it, for what a write would lead to.
    pub fn copied(&self) -> Controller
        ensures { result ≡ self.now }
    {
        match self {
            Controller::Flat(flat) => Controller::Flat(*flat),
            Controller::Mbc1(mbc1) => Controller::Mbc1(mbc1.copied()),
            Controller::Mbc3(mbc3) => Controller::Mbc3(mbc3.copied()),
            Controller::Mbc5(mbc5) => Controller::Mbc5(mbc5.copied()),
        }
    }

    /// Whether a write to an address commands the latch of MBC3's clock.
    #[tactic(auto, unfolding(crate::specs::Controllers::is_latch))]
    pub fn is_latch(&self, address: u16) -> bool
        requires { address < 0x8000 }
        ensures { result ≡ Controllers.is_latch (features self.now).kind address }
    {
        matches!(self, Controller::Mbc3(_)) && address >= 0x6000
    }

    /// The clock register behind the gate, if there is a clock and the registers choose one.
    #[tactic(auto, unfolding(crate::specs::Controllers::clock_register))]
    pub fn clock_register(&self) -> Option<ClockRegister>
        ensures { result ≡ Controllers.clock_register (features self.now) (registers self.now) }
    {
        match self {
            Controller::Mbc3(mbc3) => mbc3.clock_register(),
            Controller::Flat(_) | Controller::Mbc1(_) | Controller::Mbc5(_) => None,
        }
    }
}

impl Mapper for Controller {
    ghost features = { features };

    ghost registers = { registers };

    fn write(&mut self, address: u16, value: u8) {
        match self {
            Controller::Flat(flat) => flat.write(address, value),
            Controller::Mbc1(mbc1) => mbc1.write(address, value),
            Controller::Mbc3(mbc3) => mbc3.write(address, value),
            Controller::Mbc5(mbc5) => mbc5.write(address, value),
        }
    }

    fn low_bank(&self) -> u16 {
        match self {
            Controller::Flat(flat) => flat.low_bank(),
            Controller::Mbc1(mbc1) => mbc1.low_bank(),
            Controller::Mbc3(mbc3) => mbc3.low_bank(),
            Controller::Mbc5(mbc5) => mbc5.low_bank(),
        }
    }

    fn high_bank(&self) -> u16 {
        match self {
            Controller::Flat(flat) => flat.high_bank(),
            Controller::Mbc1(mbc1) => mbc1.high_bank(),
            Controller::Mbc3(mbc3) => mbc3.high_bank(),
            Controller::Mbc5(mbc5) => mbc5.high_bank(),
        }
    }

    fn ram_bank(&self) -> Option<u8> {
        match self {
            Controller::Flat(flat) => flat.ram_bank(),
            Controller::Mbc1(mbc1) => mbc1.ram_bank(),
            Controller::Mbc3(mbc3) => mbc3.ram_bank(),
            Controller::Mbc5(mbc5) => mbc5.ram_bank(),
        }
    }

    fn gate(&self) -> bool {
        match self {
            Controller::Flat(flat) => flat.gate(),
            Controller::Mbc1(mbc1) => mbc1.gate(),
            Controller::Mbc3(mbc3) => mbc3.gate(),
            Controller::Mbc5(mbc5) => mbc5.gate(),
        }
    }

    fn banks(&self) -> Banks {
        match self {
            Controller::Flat(flat) => flat.banks(),
            Controller::Mbc1(mbc1) => mbc1.banks(),
            Controller::Mbc3(mbc3) => mbc3.banks(),
            Controller::Mbc5(mbc5) => mbc5.banks(),
        }
    }
}
