//! Abstract states (abstract interpretation: an abstract domain): which machine states one stands for
//! (`Meaning` of the definitions) as far as each of its parts goes by itself, whether one stands for all that another
//! does (`covers_parts`: `exact`, `sound`), and operations that follow the machine's changes (`sound`): a register or a
//! memory cell gets a value, a word is pushed or popped, and time passes. What is known of several parts together stands
//! in `gb_product`.
//!
//! The meaning leaves the HALT mark open; `Mark` says where it does no harm.
//!
//! Read `covering`, then `operations`, `cells` and `stack`. `span`, `storage`, `origins` and `reason` are words
//! of the crates above: the addresses of an access, RAM, values that are copies or no copies, and why a node is refused.
#![tactic(auto)]

pub mod bytes;
pub mod cells;
pub mod covering;
pub mod located;
pub mod operations;
pub mod origins;
pub mod reason;
pub mod span;
pub mod stack;
pub mod storage;

pub use reason::Reason;
pub use span::Span;
pub use stack::Popped;

// What lies below, for the crates above.
pub use gb_domain::types::{
    Abs, Cell, Core, Ctl, Flg, Halves, ImeSet, KeptBanks, May, Origin, Range, Rules, Setting, Val,
};
pub use gb_vals::alu::{alu, alu_itself};
pub use gb_vals::bits::{may_enable, may_have_bit, reset_bit, set_bit, test_bit};
pub use gb_vals::branch::side;
pub use gb_vals::carry::{complement_carry, set_carry};
pub use gb_vals::daa::adjust;
pub use gb_vals::flags::{either, flags_of_val, flags_val, greatest_flags, known, known_flags};
pub use gb_vals::logic::complement;
pub use gb_vals::outcome::AbsComputed;
pub use gb_vals::shifts::{rotate_a, shift};
pub use gb_vals::strided::left_of;
pub use gb_vals::sums::{decrement, increment};
pub use gb_vals::vals::{any, between, is_single, single};
pub use gb_vals::{arithmetic, displaced, length_of, low_shifts, low_sums, strided, word};
