//! Reading the numbers of a certificate, its head, and the fields of its procedures and nodes that stand
//! outside their states, each with the first fault from the left. The key contract is that of each
//! reader: it gives what `specs/Reading.antt` says, which is made of the formats in `specs/Format.antt`.
//!
//! To be read in this order: fault, limits, numbers, head, parts.
#![tactic(auto)]

mod fault;
pub mod head;
pub mod limits;
pub mod numbers;
pub mod parts;

pub use fault::CertFault;
pub use head::Head;
