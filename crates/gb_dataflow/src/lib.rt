//! How data flows through the procedures of a run, and the plans that follow from it: which states are to be told apart, and where.
//!
//! Read `sources` (what instructions make registers from), `spots` (what a run knows at an address) and `ways` (a procedure's graph and
//! its loops); then `plan`, what may be refined, and over them `slices` (where a value comes from), `loops`, `strides` (loops through
//! arrays), `waiting` (bytes on the stack), `popped` (return words among them) and `compared` (comparisons of a known number). Nothing here is trusted: a plan that doesn't help costs time alone.
#![tactic(auto)]

mod carries;
pub mod compared;
pub mod loops;
pub mod plan;
pub mod popped;
pub mod slices;
pub mod sources;
pub mod spots;
mod strides;
pub mod waiting;
pub mod ways;

// What lies below, for the crates above.
pub use gb_fixpoint::{
    Abs, EditedPlaces, PADDING, Rules, Span, cause, cell_at, code_point, configuration, gb_ops,
    is_ram, known_bank, limits, register_set, types,
};
