//! A plain machine for comparison: memory whose free reads and interrupts an event hands in, with the
//! processor over it, and the faults and the places of each event.
//!
//! The key contracts are `faults` and `places`: each is the definition of its name. `cartridge.rt` has a
//! cartridge with its controller, `state.rt` machine states, `memory.rt` and `fetch.rt` how they answer,
//! `possible.rt` which events are possible, `faults.rt` and `places.rt` what is told of one, and `machine.rt`
//! what it leads to.
#![tactic(auto)]

pub mod cartridge;
pub mod faults;
mod fetch;
pub mod machine;
mod memory;
pub mod places;
pub mod possible;
pub mod state;

pub use cartridge::Cartridge;
pub use machine::PlainMachine;
pub use places::PlaceList;
pub use state::MachineState;

// What lies below, for the crates above.
pub use gb_faults::no_faults;
pub use gb_header::Rom;
