//! What runs of certificates' maker are made from: keys and configurations, joins and widening of states, one instruction's refusals,
//! and why a run stops.
//!
//! Code is named by its `code_point`, bank and address. `configuration`, `keys` and `register_set` say how finely states are told
//! apart; `joining`, `linking`, `relating`, `steps` and `ranges` join and widen them, `covering` compares them, by a `basis`: the
//! rules of versions 1 and 2, of version 3 or of version 4. `bases` are links that speak of a procedure's entry, and `naming` says
//! by which place a link names a byte that several hold. `claims`, `filling` and `shadowing` are what states of version 4 say of
//! the whole program. `instruction` and `refusals` say what is against an instruction in a state, by the checker's own tests,
//! `seen` what callers see of an exit, `handlers` what is known behind a handler, `written` which registers an instruction writes,
//! and `cause` and `stop` why a run goes no further.
#![tactic(auto)]

pub mod bases;
pub mod basis;
pub mod bounds;
pub mod cause;
pub mod claims;
pub mod code_point;
pub mod configuration;
pub mod covering;
pub mod fact_news;
pub mod filling;
pub mod handlers;
pub mod instruction;
pub mod joining;
pub mod keys;
pub mod limits;
pub mod linking;
pub mod naming;
pub mod ranges;
pub mod refusals;
pub mod register_set;
pub mod relating;
pub mod seen;
pub mod shadowing;
pub mod steps;
pub mod stop;
mod sums;
pub mod tracking;
pub mod written;

// What lies below, for the crates above.
pub use gb_spelling;
pub use gb_verify;
pub use gb_verify::{gb_domain, gb_ops, gb_ram_bounds};
