//! The fixpoint of certificates' maker: from power-up's state to all that the checker's own steps reach, joined
//! into nodes by a configuration's keys, with procedures that are entered, and resumed behind, as the checker does.
//! Nothing here is trusted: a certificate that comes out is judged by the checker. Every function is proved safe and
//! to return.
//!
//! States are stepped, joined and told apart by gb_joining; `basis` and `levels` hand it what a run's configuration says, `bases` what a procedure was entered with. Read `types` and
//! `run`, then `stepping`, `flow`, `calls` and `exits`; `entries` is for who orders procedures, `probing` says whether another
//! configuration would tell anything apart, and `ahead` what lies behind an access that is refused. What is asked of the stack is stated
//! again, told apart more finely than the checker's test.
#![tactic(auto)]

mod ahead;
mod asking;
mod bases;
mod basis;
mod calls;
mod compared;
mod contexts;
mod creeping;
pub mod entries;
mod exits;
pub mod fact_table;
mod facts_at_handlers;
mod flow;
mod interrupting;
mod levels;
mod probing;
mod reading;
mod records;
mod run;
mod stacks;
mod stepping;
pub mod types;
mod words;

pub use entries::Entered;
pub use probing::EditedPlaces;
pub use types::{
    CallSite, CellRead, CellStore, CellValue, Edge, PlacedWord, Run, RunNode, RunProcedure, Spot,
};

// What lies below, for the crates above.
pub use gb_joining::bases::pair_bounds;
pub use gb_joining::bounds::{WORD_PAIRS, facts_of};
pub use gb_joining::cause::{Cause, Failure, RunEnd, StackMisuse, TransferMisuse, Wish};
pub use gb_joining::configuration::{Configuration, Edition, EntryCells, TargetPlace, TouchedCell};
pub use gb_joining::gb_domain::pairs::{ANY_PAIRS, PairBounds};
pub use gb_joining::gb_domain::summary::Fact;
pub use gb_joining::gb_ops::machine::Region;
pub use gb_joining::gb_spelling::{Code, INTERRUPT_COUNT, PADDING, interrupt_at, vector_of};
pub use gb_joining::gb_verify::check::check;
pub use gb_joining::gb_verify::verdict::Verdict;
pub use gb_joining::gb_verify::{
    Abs, AbsRead, AbsWrite, Bounds, Cell, Cert, Core, Ctl, Flg, ImeSet, May, NOTHING_KNOWN,
    NodeRef, OneByte, Origin, Other, PairFacts, Pairs, Program, Range, Relations, Resumed, Rom,
    Rules, Setting, Span, Stack, Successor, Successors, Target, Val, WordPair, any, callee_at,
    cell_at, check_irqs, check_node, covers, covers_core, enter, exit_of, handler, is_ram, kept_of,
    known_bank, known_bytes, left_by_dispatch, may_come, program_of, ranges_of, resume, stack_of,
    successors_of, taken_by,
};
pub use gb_joining::instruction::code_at;
pub use gb_joining::keys::{ControllerKey, KnownRegisters, NodeKey, ProcedureKey};
pub use gb_joining::register_set::RegisterSet;
pub use gb_joining::{
    cause, code_point, configuration, gb_ops, keys, limits, register_set, written,
};
