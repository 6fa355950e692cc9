//! Certificates of versions 1 to 4, in the bytes of their files. `Cert::parse` walks over the bytes once, checks each
//! field and keeps where each node stands; a `Cert` then lends its nodes and procedures. The key
//! contract is `Cert::parse`: bytes are accepted exactly where they spell a certificate
//! (`specs/WholeRules.antt` and `specs/WholeSpelling.antt` of `gb_states`, which are `Rules.antt` and `Spelling.antt` where the
//! version isn't 4: `older_rules`), with the first fault else (its `specs/WholeReading.antt`). `write_certificate` gives the
//! bytes of a certificate that is made up from plain values: the one spelling of these (`specs/Written.antt`), or the limit
//! that they don't keep.
//!
//! To be read in this order: walk (passing over states, ranges, procedures and nodes, over the readers
//! of `gb_states`), order (the entries of procedures), parse, then cert with node, procedure and state, find and namesakes.
#![tactic(auto)]

mod cert;
mod find;
mod namesakes;
mod node;
mod order;
mod parse;
mod procedure;
mod spellable;
mod spelled;
mod spelled_whole;
mod state;
mod told;
mod walk;
mod writer;

pub use cert::{Cert, encode, older_rules, one_spelling};
pub use find::{First, Search};
pub use gb_rows::Found;
pub use gb_states::CertFault;
pub use namesakes::Namesakes;
pub use node::NodeRef;
pub use procedure::ProcedureRef;
pub use state::{StateRef, Told};
pub use writer::{
    CertificatePlan, NodePlan, ProcedurePlan, Version, WriteFault, write_certificate,
};

// What lies below, for the crates above.
pub use gb_states::fields::{ctl_in, ime_in, origin_of, val_of};
pub use gb_states::relations::test_alone;
