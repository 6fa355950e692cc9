//! Whole abstract states: each part by itself, and what is known of several parts together (abstract interpretation: a product
//! of domains). `Means` of the definitions joins both meanings; `covers` decides whether one state stands for all that another
//! does, `reduced` cuts registers and pairs to what they leave of each other, and `sides_of` gives what a conditional instruction
//! learns from its condition (each `exact`, `sound`).
//!
//! Read `covering`, which asks `bytes` what is known of RAM, `read`, what links read there, then `parts`, `reduced` and `sides`.
#![tactic(auto)]

pub mod bytes;
pub mod covering;
pub mod held;
pub mod parts;
pub mod read;
pub mod reduced;
pub mod sides;
pub mod states;

pub use bytes::{byte_in, byte_of, covers_cells, covers_lists, uncopied};
pub use held::{held_relations, relations_outside, stack_held};
pub use parts::{Branch, Branches, Product};
pub use read::{read_by, read_in};
pub use states::States;

// What lies below, for the crates above.
pub use gb_abs_effects::pairs::{any_word, is_word_known, least_word, pair_halves, top_word};
pub use gb_abs_effects::reads::{AbsRead, read_of};
pub use gb_abs_effects::sides::condition_of;
pub use gb_abs_effects::targets::{Target, target_of};
pub use gb_abs_effects::transfer::{Inputs, transfer_in};
pub use gb_abs_effects::writes::{AbsEffect, AbsWrite, quiet};
pub use gb_abs_effects::{
    Span, any, append_bytes, cell_at, cell_without_origin, cells_without_origins,
    core_without_origins, covers_controller, covers_ime, covers_origin, covers_val, end, flags_val,
    is_own, known, left_of, may_enable, may_have_bit, own, pass, push, put_cell, resize, settle,
    single, sp_bounds, sp_halves, with_cell, without_origin,
};
pub use gb_domain::program::Program;
pub use gb_summaries::instruction::{InstructionStore, summary_after};
pub use gb_summaries::returning::{GivenBack, KnownRam, is_byte_kept, summary_returned};
pub use gb_summaries::{
    AddressSet, Kept, ReadKept, Values, bounds_of, gb_ram_bounds, is_in, known_bits, known_carry,
    only_of_a, places_outside, pointed_bits, pointer_bounds, reduce, relations_after, returned,
};
