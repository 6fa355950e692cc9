//! The cartridge's header: which files are cartridges, and what their headers say.
#![tactic(auto)]

mod facts;
pub mod fault;
mod faults;
pub mod rom;

pub use fault::HeaderFault;
pub use rom::Rom;
