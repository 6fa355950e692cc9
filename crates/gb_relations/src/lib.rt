//! What an instruction leaves of what is known of several parts of a state together: places that hold one byte with what the
//! flags say of it, a pair of which they say whether it is 0, bounds of pairs and links between them (abstract interpretation:
//! transfer functions of relational domains).
//!
//! Read `transfer`, whose `relations_after` is what its definition says and holds behind every effect of the instruction. It
//! stands on `compared` (by the rules of versions 1 and 2), and on `written`, the registers that are overwritten, on `places`, where a byte is stored or read, and on `bytes` and
//! `pairs`, what is left of each part; `cell_links` is what stores leave of links. `pair_copies` are the copies by which two pairs become equal. `pointers` says where an instruction reads or writes by a pair, and the carry of ADD HL;
//! `pointed_bits` what low bits such an address has.
#![tactic(auto)]

pub mod bytes;
mod cell_links;
pub mod compared;
pub mod items;
pub mod pair_copies;
pub mod pairs;
pub mod places;
pub mod pointed_bits;
pub mod pointers;
pub mod returned;
pub mod transfer;
pub mod written;

pub use returned::{Kept, ReadKept};

// What lies below, for the crates above.
pub use gb_copies::bank_covering::covers as covers_shadows;
pub use gb_copies::bank_returned::{Preserved, returned as shadows_returned_by};
pub use gb_copies::covering::covers_byte;
pub use gb_copies::fitting::fitting;
pub use gb_copies::shadows::{copied_to_address, copied_to_register, stored, without_register};
pub use gb_copies::sides::{PlaceContents, narrowed};
pub use gb_copies::windows::{has_windows, is_in_window};
pub use gb_copies::{BankWindow, Known};
pub use gb_domain::places::has_place;
pub use gb_pairs::bounds::bounds_of;
pub use gb_pairs::covering::covers_pairs;
pub use gb_pairs::reduced::{reduce, restricted};
pub use gb_pairs::values::Values;
pub use gb_pairs::written::{is_same_pair, without_bases};
