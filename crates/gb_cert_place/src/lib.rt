//! Where in its file a certificate's fault is, and in which field: `fault_place` reads the bytes again,
//! and says after how many of them reading stops. Fewer say only that bytes are missing; these have
//! the fault, whatever follows.
//!
//! Read specs/Stops.antt, specs/Standing.antt and specs/Places.antt first. Then read place, parts (a reader for
//! each version), block (fields that follow one another, and where reading stops in them), field (the fields of
//! a block), walk (up to the block with the fault) and text (a place as a person reads it).
#![tactic(auto)]

pub mod block;
pub mod field;
mod parts;
pub mod place;
mod text;
mod walk;

pub use block::{Block, Part, Stop};
pub use field::{Field, Owner};
pub use place::{FaultPlace, Sought};

// What lies below, for the crates above.
pub use gb_cert::Cert;
pub use gb_fields::CertFault;
