//! Why a certificate is refused, for a person: the node with its place and its instruction, what is wrong with it, how to
//! fix that, and, where other nodes or procedures have to do with it, what the certificate lacks there.
//!
//! Read `refusal`, then `explanation`, and `gaps`, which finds what the certificate lacks, with `depth`, `covering`, `calls`,
//! `returns` and `interrupts`; `differences` has the parts of a state that another state doesn't cover, `unshown` those that are about
//! the whole program, and `broken` which fact a store breaks. `advice` has the texts of all findings, those of gb_reports too, `reasons`
//! which of them each reason gets, `told`, `difference`, `together` and `said` the texts of gaps. Of the texts nothing is promised
//! but by tests.
#![tactic(auto)]

pub mod advice;
mod broken;
mod calls;
mod covering;
mod depth;
mod difference;
mod differences;
mod explanation;
mod gap;
mod gaps;
mod interrupts;
mod reasons;
mod refusal;
mod returns;
mod said;
mod together;
mod told;
mod unshown;

pub use advice::Advice;
pub use broken::BrokenFact;
pub use difference::{BankPart, KnownPart, StateDifference, StatePart};
pub use differences::Differences;
pub use explanation::Explanation;
pub use gap::{
    After, Amount, Claim, Gap, GapKind, Gaps, GoesOn, TooDeep, Uncallable, Uncovered, Unreturnable,
};
pub use refusal::explain;
pub use said::{ShownAddresses, ShownBytes, ShownFact, ShownFill, ShownSummary, step_text};

// What lies below, for the crates above.
pub use gb_spelling::{
    AFTER_VECTORS, Code, INTERRUPT_COUNT, PADDING, interrupt_at, interrupt_name, vector_of,
};
pub use gb_verify::check::check;
pub use gb_verify::upgrade::{UpgradeTo, Upgraded, upgrade_bytes};
pub use gb_verify::verdict::Verdict;
pub use gb_verify::verify::{Outcome, verify_bytes};
pub use gb_verify::{
    Abs, Cert, HeaderFault, NodeRef, Origin, Plain, Program, Range, Rom, Rules, Successor, Target,
    Val, callee_at, handler, known_bytes, may_come, program_of, setting_of, stack_of,
    successors_of, taken_by,
};
