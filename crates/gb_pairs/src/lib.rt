//! What is known of register pairs beside their bytes: bounds of 16 bits, and links with another register or pair (abstract
//! interpretation: a weakly relational domain, in a reduced product with the intervals of the registers). Each operation is
//! what its definition says (`exact`), and what it gives holds of all registers that the machine may have then (`sound`).
//!
//! Read `values` and `bounds`, then `reduced`, which cuts values to what pairs leave, then `written`, `copied` and `moved`, what a
//! write leaves of pairs, and last `covering`. `Meaning` of the definitions says which registers values stand for.
#![tactic(auto)]

pub mod bounds;
pub mod copied;
pub mod covering;
pub mod moved;
mod plain;
pub mod reduced;
pub mod values;
pub mod written;

pub use moved::HlSum;
pub use values::Values;

// What lies below, for the crates above.
pub use gb_vals::vals::is_single;
