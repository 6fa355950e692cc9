//! How instructions are spelled, and what interrupts are called, for whoever reads what a program says.
//!
//! A `Spelling` prints an instruction as assemblers write it: `LD ($C000),A`, `JR NZ,$0152`. Read `spelling`, with
//! `names`; `vectors` has the interrupts' names, `code` what is said where an instruction isn't known. Nothing is promised of the text but by tests.
#![tactic(auto)]

mod code;
mod names;
mod spelling;
mod vectors;

pub use code::Code;
pub use spelling::Spelling;
pub use vectors::{
    AFTER_VECTORS, INTERRUPT_COUNT, PADDING, interrupt_at, interrupt_name, vector_of,
};
