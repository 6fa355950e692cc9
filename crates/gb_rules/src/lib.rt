//! The rules of a certificate's single nodes. `check_node` answers the lowest reason against a node
//! (`exact`); where there is none, each event but an interrupt's dispatch, from each state that the
//! node stands for, has no fault, fetches certified places, leaves a state that some node of the
//! procedure stands for, or calls, or returns, and changes nothing that the procedure keeps (`safe`).
//! `check_irqs` answers whether the interrupts that may come are provided for; where they are, the same
//! holds of each event, a dispatch among them.
//!
//! Read `covered` and `by_values` (the nodes that stand for a successor's states), `procedures` (calls and returns),
//! `interrupts`, `ways`, and then `rules`. Of the definitions, `Covered`, `Procedures`, `Rules` and `Safety`; then `Frames`: the
//! procedures that wait for one another.
#![tactic(auto)]

mod by_values;
pub mod covered;
mod depth;
pub mod interrupts;
pub mod procedures;
pub mod room;
pub mod rules;
mod stacks;
mod ways;

pub use room::Room;

// What lies below, for the crates above.
pub use gb_calls;
pub use gb_calls::callees::callee;
pub use gb_calls::entering::enter;
pub use gb_calls::interrupts::{handler, left_by_dispatch, may_come};
pub use gb_calls::ranges::are_ranges_inside;
pub use gb_calls::resuming::{Resumed, resume};
pub use gb_calls::{
    BankShadows, Cert, CertFault, NodeRef, ProcedureRef, Shadows, StateRef, States, Summary,
    byte_of, covers_relations, covers_said, test_alone,
};
pub use gb_successors::refused::is_stack_limited;
pub use gb_successors::stacks::Stack;
pub use gb_successors::successor::Successor;
pub use gb_successors::successors::{Successors, successors_of};
pub use gb_successors::{
    ANY_BOUNDS, Abs, AbsRead, AbsWrite, Bounds, Cell, Core, Ctl, Flg, Halves, ImeSet, KeptBanks,
    Link, May, NO_REGISTER, NOTHING_KNOWN, OneByte, Origin, Other, PairFacts, Pairs, Program,
    RANGES, Range, Reason, Relations, Rules, Setting, Span, Target, Test, Val, WordPair, any,
    area_end, cell_at, covers, covers_controller, covers_core, covers_ime, covers_may,
    covers_origin, covers_val, gb_domain, gb_ram_bounds, holds_bytes, is_limited, is_ram, known,
    known_bank, known_byte, known_bytes, leaves_area, length_of, lies_in_high_ram,
    meets_closed_ram, read_in, reduced, with_value,
};
