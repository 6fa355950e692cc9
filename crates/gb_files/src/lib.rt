//! Files and standard input, read whole, and what is said where that fails: a line on standard error for a person, with the
//! name of the program that reads.
//!
//! Read `reading` for the calls; `trouble` has why one fails, and the line of its fault.
#![tactic(auto)]

pub mod reading;
pub mod trouble;

pub use reading::{is_input, read_cartridge, read_certificate, read_file, shown_name};
pub use trouble::Trouble;
