//! The possible successors of an instruction (abstract interpretation: abstract semantics): taken, not
//! taken, and staying on HALT. Each has what is read and written on the way, where it goes on, and
//! the states behind it. What the instruction does from a state that the node's state stands for,
//! where the HALT mark is clear and it isn't STOP, is one of them, as long as its accesses are not
//! refused (`Sound` of the definitions).
//!
//! `code` says where code may lie, and what is known of the instruction at an address: that the machine fetches these bytes, without a
//! fault, from places that the node certifies, is a law (`CodeLaws` of the proofs, over `Fetched` of the definitions) that the rules of
//! nodes rest on. Read `way`, `loads`, `successor`, then `successors`, and `refused`: what refuses a successor.
#![tactic(auto)]

pub mod code;
mod loads;
mod refined;
pub mod refused;
mod said;
mod stack_mark;
pub mod stacks;
pub mod successor;
pub mod successors;
pub mod way;

pub use code::{
    area_end, is_other_bank, known_byte, known_bytes, known_bytes_from, leaves_area,
    lies_in_high_ram,
};
pub use stacks::{Around, Stack, StackMove};
pub use successors::Successors;
pub use way::{Moved, Successor};

// What lies below, for the crates above.
pub use gb_abs_memory::load::holds_bytes;
pub use gb_abs_memory::refusals::{is_limited, meets_closed_ram};
pub use gb_abs_memory::shown::known_bank;
pub use gb_abs_memory::{
    Halves, Reason, Rom, Span, any, cell_at, covers_controller, covers_core, covers_ime,
    covers_may, covers_origin, covers_val, is_ram, known, length_of, settle, with_value,
};
pub use gb_domain;
pub use gb_domain::pairs::{
    ANY_BOUNDS, Bounds, Link, NOTHING_KNOWN, Other, PairFacts, Pairs, WordPair,
};
pub use gb_domain::places::{NO_REGISTER, OneByte, Test};
pub use gb_domain::relations::Relations;
pub use gb_domain::types::{
    Abs, Cell, Core, Ctl, Flg, ImeSet, KeptBanks, May, Origin, RANGES, Range, Rules, Setting, Val,
};
pub use gb_product::covering::covers;
pub use gb_product::parts::Product;
pub use gb_product::reduced::{reduce, reduced, reduced_wholly};
pub use gb_product::sides::{not_taken_side, taken_side};
pub use gb_product::{AbsRead, AbsWrite, Program, Target, gb_ram_bounds, read_in};
