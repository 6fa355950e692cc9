//! What bytes of RAM may hold where no memory cell says it (abstract interpretation: summaries of memory). A *fact* bounds bytes
//! for the whole program; facts are numbered, and a state says how many of them hold, its level. A *fill* is of one state, and its
//! end may be a pointer. Both are about addresses without a cell alone: a cell is an exception. They are for certificates that
//! bound memory for the whole program; nothing reads them yet.
//!
//! Each operation is its definition (`exact`), and no memory is lost (`sound`): a store keeps the facts or lowers the level, and
//! grows fills; a pointer that moves shifts the ends of fills, and one that is written otherwise fixes them; a byte that is read
//! lies in what facts and fills say; where a routine returns, what its exit says counts inside its ranges, and the caller's outside.
//!
//! Read `cells` and `addresses`, then `facts`, `pointers` and `fills`, then `covering` with `throughout`, and last `returned`. `Meaning` of the definitions says which
//! memories are meant.
#![tactic(auto)]

pub mod addresses;
pub mod cells;
pub mod covering;
pub mod facts;
pub mod fills;
pub mod pointers;
pub mod returned;
mod throughout;

pub use addresses::AddressSet;
pub use pointers::Pointers;
