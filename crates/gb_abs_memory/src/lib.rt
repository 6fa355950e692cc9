//! Loads and stores of abstract states. `load` answers what is known of a byte, `store` the state
//! afterwards, or each the lowest reason against it (`exact`); both follow what the machine does at
//! each address that the access may meet (`sound`). `ctl_after` gives the controller's registers after
//! a store, with the least bounds, and `known_bank` the ROM bank that is shown whatever the registers
//! are (`sound`, `complete`).
//!
//! Read `windows` and `shown` (controllers), `refusals` (what refuses an access), then `load`, `items`
//! (bytes of the stack that a store meets) and `store`.
#![tactic(auto)]

pub mod items;
pub mod load;
pub mod refusals;
pub mod shown;
pub mod store;
pub mod windows;

pub use items::tell_item;
pub use store::{Area, Stored};
pub use windows::{ControllerRegister, Window};

// What lies below, for the crates above.
pub use gb_abs::covering::{
    cell_at, covers_controller, covers_core, covers_ime, covers_may, covers_origin, covers_val,
};
pub use gb_abs::located::item_at;
pub use gb_abs::operations::{settle, with_value};
pub use gb_abs::reason::Reason;
pub use gb_abs::span::Span;
pub use gb_abs::storage::is_ram;
pub use gb_abs::{Halves, any, known, length_of};
pub use gb_domain::types::{Abs, Val};
pub use gb_header::Rom;
