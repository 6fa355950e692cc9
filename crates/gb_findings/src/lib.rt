//! What there is to report from a run that failed: where, in which state, how the code gets there, and what multiplies.
//!
//! Read `finding`, which takes it from a run, with `path` (how a node was reached), `chain` (through which calls) and `crowd` (what is
//! there too often); `lost_bank` with `steps_back` says who left another bank mapped, `pushed_return` which return takes bytes that
//! the code pushed, `handlers` which handlers switch banks, `divided`
//! whether a division came before, and `around` whether there is a loop, and whether a text is read. Nothing here is text.
#![tactic(auto)]

mod around;
pub mod chain;
pub mod crowd;
mod divided;
pub mod finding;
mod handlers;
pub mod lost_bank;
pub mod path;
pub mod pushed_return;
pub mod steps_back;

pub use chain::{CallChain, EnteredRoutine, Root};
pub use crowd::{Count, Crowd, Multiplied, Multiplier, ReachedLimit};
pub use finding::{BankFinding, Finding, InstructionFinding, PointerLoad, Spent, report_finding};
pub use lost_bank::{BankLoser, LostBank, Mapping};
pub use path::{Path, Segment, Start};
pub use pushed_return::{PushedReturn, is_by_wild_return};
pub use steps_back::MappedBanks;

// What lies below, for the crates above.
pub use gb_fixpoint;
pub use gb_fixpoint::code_point::CodePoint;
pub use gb_fixpoint::{
    Abs, Cell, Cert, NodeRef, Program, Range, Rom, Verdict, code_at, gb_ops, program_of,
};
pub use gb_symbols;
pub use gb_symbols::{Format, SymbolFault, SymbolFaultKind, SymbolOffset, Symbols};
