//! How a certificate's states are spelled and read: the readers of their fields, each with the first fault
//! from the left. `specs/Rules.antt` says which states and certificates there are, and `specs/Spelling.antt`
//! in which bytes each of them stands. The key contract is that of `states::state_at`: it gives what
//! `specs/Reading.antt` says, and this is a state exactly where the bytes spell it (`proofs/StateLaws.antt`).
//! What a state says of several of its parts together has the same three by itself (`specs/RelationRules.antt`,
//! `Links.antt`, `RelationSpelling.antt`, `RelationReading.antt`, `proofs/PairLaws.antt`, `RelationLaws.antt`), and so have the fields
//! that version 4 alone has, and certificates of any version (`specs/WholeRules.antt`, `WholeSpelling.antt`, `WholeReading.antt`, `proofs/WholeLaws.antt`; the law of
//! whole certificates is `gb_cert`'s).
//!
//! To be read in this order: role, then fields, states and relations (reading them, over `gb_fields`; what they
//! are made of is `gb_domain`'s), listed (lists that are read again), whole and whole_states (version 4's fields
//! and states), and form (which of both a version reads). All are public for `gb_cert`, which passes over states and lends them, and for `gb_cert_place`, which
//! reads a faulty file again, part by part.
#![tactic(auto)]

pub mod fields;
pub mod form;
pub mod listed;
pub mod relations;
pub mod role;
pub mod states;
pub mod whole;
pub mod whole_states;

pub use form::{Form, ProcedureForm};
pub use relations::{InMemory, Present};
pub use role::Role;

// What lies below, for the crates above.
pub use gb_fields::head::{AnyHead, Head, any_head_at, any_version_at, head_at};
pub use gb_fields::limits::{
    NEED_LIMIT, PROCEDURE_LIMIT, RANGE_LIMIT, cell_limit, item_bytes, range_room,
};
pub use gb_fields::numbers::{byte, count_within, counted, from_place, node_number, word_between};
pub use gb_fields::parts::{base_at, entry_at, front_at, key_at, need_at, returns_at};
pub use gb_fields::{CertFault, limits, numbers};
