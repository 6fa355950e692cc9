//! What authors read of certificates and of findings: listings, and findings: where, what can go wrong, how the code gets there,
//! what is known there, and how to fix it.
//!
//! Read gb_symbols and gb_findings first; then `listing`, with `state` for states as a person reads them; then `shown`, the lines for a
//! person, with `problem`, `reached`, `known`, `lost_text` and `topic`, which chooses the texts that gb_explain has; at last `json` with
//! `object`. Of the texts nothing is promised.
#![tactic(auto)]

mod color;
mod json;
mod known;
mod listing;
mod lost_text;
mod object;
mod problem;
mod reached;
mod shown;
mod state;
mod topic;

pub use color::color_note;
pub use json::finding_json;
pub use listing::Listing;
pub use object::JsonObject;
pub use shown::{FindingPart, ShownFinding, ShownPart};
pub use state::{ShownCell, ShownFlags, ShownRegisters, fmt_core};

// What lies below, for the crates above.
pub use gb_facts::{
    AFTER_VECTORS, Bound, CallLink, Code, CodeRun, Difference, EnteredBy, Exit, Explanation, Facts,
    INTERRUPTS, Interrupt, Key, Keyed, Outline, ProcedureFacts, ShownSummary, Side, Sketch,
    StackStep, differences, explain, interrupt_at, is_same_way, length_at, target_of, way_from,
};
pub use gb_findings::gb_symbols::NamedText;
pub use gb_findings::{
    Abs, Cell, Cert, CodePoint, Count, Crowd, Finding, Format, InstructionFinding, Multiplied,
    Multiplier, NodeRef, Program, Range, ReachedLimit, Rom, Segment, Start, SymbolFault,
    SymbolFaultKind, SymbolOffset, Symbols, Verdict, code_at, gb_ops, program_of,
};
