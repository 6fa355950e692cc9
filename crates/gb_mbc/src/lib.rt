//! The cartridge's controllers, the banks that they show, and the clock of MBC3.
//!
//! The trait `Mapper` is the contract of each controller: its banks follow `specs/Controllers.antt` and lie
//! below the cartridge's counts, and writes outside its windows change nothing. Read `mapper` first, then
//! `flat`, `mbc1`, `mbc3` and `mbc5`, then `controller`, which is any of them, and `clock`.
#![tactic(auto)]

pub mod clock;
pub mod controller;
mod flat;
pub mod mapper;
mod mbc1;
mod mbc3;
mod mbc5;

pub use clock::{Clock, ClockRegister, Time};
pub use controller::Controller;
pub use flat::Flat;
pub use mapper::Mapper;
pub use mbc1::Mbc1;
pub use mbc3::Mbc3;
pub use mbc5::Mbc5;

// What lies below, for the crates above.
pub use gb_header::Rom;
