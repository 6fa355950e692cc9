//! The transfer functions of instructions (abstract interpretation): what each reads, computes and
//! writes, over intervals and sets of flags. `transfer_in` makes of a core what a taken instruction
//! leaves, and says what it writes (`exact`); whatever the machine does from a state that the core
//! stands for, the outcome stands for (`sound`). STOP is left out, since no certificate may reach it.
//!
//! Read `reads`, `sides` and `targets` (where an instruction goes on), then `pairs`, `by_rules` (by the rules of version 4 what is
//! computed is cut to its low bits) and `writes`, and last `transfer`. Where an OAM transfer is
//! meant, it is called so: the word transfer alone is a transfer function's.
#![tactic(auto)]

mod by_rules;
pub mod pairs;
pub mod reads;
pub mod sides;
pub mod targets;
pub mod transfer;
pub mod writes;

pub use reads::AbsRead;
pub use sides::Sides;
pub use targets::Target;
pub use transfer::Inputs;
pub use writes::{AbsEffect, AbsWrite};

// What lies below, for the crates above.
pub use gb_abs::bytes::{append_bytes, resize};
pub use gb_abs::cells::{put_cell, with_cell};
pub use gb_abs::covering::{
    cell_at, covers_controller, covers_core, covers_ime, covers_items, covers_lists, covers_origin,
    covers_val,
};
pub use gb_abs::located::{sp_bounds, sp_halves};
pub use gb_abs::operations::{end, pass, settle};
pub use gb_abs::origins::{
    cell_without_origin, cells_without_origins, core_without_origins, is_own, own, without_origin,
};
pub use gb_abs::span::Span;
pub use gb_abs::stack::push;
pub use gb_abs::{any, flags_val, known, left_of, may_enable, may_have_bit, single};
