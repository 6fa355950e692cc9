//! What a state says that is about the whole program: facts that hold, fills, shadows of the controller's registers, and where SP
//! points while the stack is put aside (abstract interpretation: summaries). They are for certificates of version 4; the rules take
//! them through covering, instructions and calls, and states of versions 1 to 3 say nothing. Each operation is its definition
//! (`exact`), and what it gives holds of all that the machine makes of what held before (`sound`).
//!
//! Read `known`, which says what a state knows of pointers and of the controller, then `covering`. `stores` has what a store to RAM or
//! into the controller leaves, `elsewhere` why any other store leaves all of it, `moves` how far an instruction moves pointers,
//! `transfer` what it leaves of fills and shadows, and `instruction` all of it together. `reducing` cuts the bank's bounds to what its
//! shadows leave, and `returning` has what holds where a routine returns. `Meaning` of the definitions says what it is for a summary
//! to hold.
#![tactic(auto)]

ghost use Rattle.gb_summaries.specs.Meaning as Meaning;

pub mod covering;
pub mod elsewhere;
pub mod instruction;
pub mod known;
pub mod moves;
pub mod reducing;
pub mod returning;
pub mod stores;
pub mod transfer;

/// Of what says nothing nothing has to hold.
#[tactic(auto, using(crate::proofs::MeaningLaws::nothing_holds))]
pub fn nothing_is_said()
    ensures { Meaning.NothingHolds }
{}

pub use covering::known_byte;

// What lies below, for the crates above.
pub use gb_ram_bounds;
pub use gb_ram_bounds::AddressSet;
pub use gb_ram_bounds::addresses::is_in;
pub use gb_ram_bounds::cells::has_cell;
pub use gb_relations::compared::only_of_a;
pub use gb_relations::items::{held_places, places_outside};
pub use gb_relations::pointed_bits::{known_bits, pointed_bits};
pub use gb_relations::pointers::{known_carry, pointer_bounds};
pub use gb_relations::returned::{Kept, ReadKept, returned};
pub use gb_relations::transfer::relations_after;
pub use gb_relations::{
    BankWindow, PlaceContents, Values, bounds_of, covers_byte, covers_pairs, has_place,
    is_same_pair, narrowed, reduce, restricted, without_bases,
};
