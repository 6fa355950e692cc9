//! What the instructions compute and do: each function is the definition of its name.
//!
//! The key contract is `perform`: what an instruction leaves of a processor, and what it still has to write, is
//! `effect_of`'s. `flags.rt`, `arithmetic.rt` and `pairs.rt` are what it is made of, `effect.rt` has the
//! instructions, and `advance.rt` what executing any of them does.
#![tactic(auto)]

pub mod advance;
pub mod arithmetic;
pub mod effect;
pub mod flags;
pub mod pairs;

pub use effect::Performed;
