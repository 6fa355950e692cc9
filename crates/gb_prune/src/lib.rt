//! Smaller certificates from accepted ones of version 3: what no rule asks for is left out, and then the nodes and procedures
//! that others stand for. Every function is proved safe and to return; the checker judges what comes out.
//!
//! Read `parts`, what may be left out of a state, and `standing`, which nodes stand for a
//! state, and `onward`, where a node leads; then `aims` and `asking`, what its ways ask
//! of it, `demands`, how that flows back, and `pruning`. `changed` writes what is left.
#![tactic(auto)]

mod aims;
mod asking;
mod changed;
mod demands;
mod onward;
mod parts;
mod pruning;
mod standing;

pub use pruning::{pruned, reached};

// What lies below, for the crates above.
pub use gb_draft::{
    Cause, Cert, CodePoint, Configuration, Edition, FactTable, Failure, PADDING, REGISTERS, Rom,
    Rules, Run, RunEnd, Span, Spot, StackMisuse, TargetPlace, Verdict, Wish, WriteFault,
    certificate_of, check, find_needs, gb_ops, is_ram, limits,
};
