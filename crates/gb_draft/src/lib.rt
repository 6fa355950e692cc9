//! Certificates from finished runs of the maker's fixpoint: the bytes of stack that procedures need, the order in
//! which calls find their own procedures, the nodes that are not spare, and the bytes. The checker judges what comes
//! out. Every function is proved safe and to return.
//!
//! Read `needs`, `order` and `certificate`; the bytes are `gb_cert`'s `write_certificate`.
#![tactic(auto)]

mod certificate;
mod needs;
mod order;

pub use certificate::certificate_of;
pub use needs::find_needs;
pub use order::{Precedence, add_in_order, by_address};

// What lies below, for the crates above.
pub use gb_cert::{
    CertificatePlan, NodePlan, ProcedurePlan, Version, WriteFault, write_certificate,
};
pub use gb_fixpoint::cause::{Cause, Failure, RunEnd, StackMisuse, Wish};
pub use gb_fixpoint::code_point::CodePoint;
pub use gb_fixpoint::configuration::{Configuration, Edition, TargetPlace};
pub use gb_fixpoint::fact_table::FactTable;
pub use gb_fixpoint::register_set::{REGISTERS, RegisterSet};
pub use gb_fixpoint::types::{Run, Spot};
pub use gb_fixpoint::{
    ANY_PAIRS, Abs, AbsRead, AbsWrite, Bounds, Cell, Cert, Core, Ctl, Fact, Flg, INTERRUPT_COUNT,
    KnownRegisters, May, NOTHING_KNOWN, OneByte, Origin, Other, PADDING, PairBounds, PairFacts,
    Pairs, Program, Range, Relations, Resumed, Rom, Rules, Setting, Span, Stack, Successor,
    Successors, Target, Val, Verdict, WORD_PAIRS, WordPair, any, callee_at, check, check_irqs,
    check_node, covers, covers_core, enter, exit_of, facts_of, gb_ops, handler, is_ram, kept_of,
    known_bytes, left_by_dispatch, limits, may_come, pair_bounds, program_of, ranges_of, resume,
    stack_of, successors_of, taken_by, vector_of,
};
