//! Calls, over abstract states: what a procedure begins with that is called (`enter`), which one is called
//! (`callee`), whether what it may write is its caller's to write (`are_ranges_inside`), and what its caller goes
//! on with (`resume`). Each is `exact`; entering and resuming follow what the machine does (`sound`).
//!
//! An interrupt's handler is a callee too: whether the interrupt may come (`may_come`), what its dispatch leaves
//! (`left_by_dispatch`), and which procedure handles it (`handler`).
//!
//! A caller's state is the one in which it left. By the rules of versions 1 and 2 the return word is on the stack, but no
//! item of the caller's. By those of version 3 it is two items; the callee takes over the caller's newest, as many as its
//! entry node has, the others wait, and what its exit holds is the caller's again.
//!
//! By those of version 4 a procedure names addresses whose bytes are to be kept. A callee begins with copies of them, and what its
//! exit says is a copy is to the caller what the caller's own state says of what it is a copy of.
//!
//! Read `entering` and `callees`, then `ranges`, `told`, `cells`, `resuming` and `interrupts`. Of the definitions, `TakenOver`,
//! `Calls`, `Told`, `Resuming`, `Interrupts` and `Sound`.
#![tactic(auto)]

pub mod callees;
mod cells;
pub mod covering;
pub mod entering;
mod in_bytes;
pub mod interrupts;
pub mod ranges;
pub mod resuming;
mod told;

pub use resuming::{Resumed, Return};

// What lies below, for the crates above.
pub use gb_abs_memory;
pub use gb_cert;
pub use gb_cert::{Cert, CertFault, Found, NodeRef, ProcedureRef, StateRef, test_alone};
pub use gb_domain::low_bits::are_congruent;
pub use gb_domain::summary::{BankShadows, Shadows, Summary};
pub use gb_product::covering::{covers_relations, covers_said};
pub use gb_product::{States, Values, bounds_of, byte_of, with_cell};
