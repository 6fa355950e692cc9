//! The verdict on a certificate for a cartridge, and the printed line. `check` is the headline: where it
//! accepts, every run from power-up is safe (`safe`); `verify_bytes` goes from the bytes of two files
//! to the line on a sink; `upgrade_bytes` writes a certificate in a later version of its
//! format.
//!
//! Read `check`, with the definitions `Verdict`, `PowerUp` and `Headline`, then `verify`, with
//! `Text`, and `upgrade`, with `CertificateFile` and `Upgrade`, and `widen`, with `Widened`.
#![tactic(auto)]

pub mod check;
pub mod upgrade;
pub mod verdict;
pub mod verify;
mod widen;

pub use upgrade::{UpgradeTo, Upgraded};
pub use verdict::Verdict;
pub use verify::{Answer, Outcome};

// What lies below, for the crates above.
pub use gb_ops;
pub use gb_rules::covered::covered_at;
pub use gb_rules::interrupts::check_irqs;
pub use gb_rules::procedures::{
    callee_at, exit_of, kept_of, need_of, program_of, ranges_of, setting_of, stack_of, taken_by,
};
pub use gb_rules::rules::{check_node, is_nop_behind};
pub use gb_rules::{
    ANY_BOUNDS, Abs, AbsRead, AbsWrite, BankShadows, Bounds, Cell, Cert, CertFault, Core, Ctl, Flg,
    Halves, ImeSet, KeptBanks, Link, May, NO_REGISTER, NOTHING_KNOWN, NodeRef, OneByte, Origin,
    Other, PairFacts, Pairs, ProcedureRef, Program, RANGES, Range, Reason, Relations, Resumed,
    Rules, Setting, Shadows, Span, Stack, States, Successor, Successors, Summary, Target, Test,
    Val, WordPair, any, are_ranges_inside, area_end, byte_of, callee, cell_at, covers,
    covers_controller, covers_core, covers_ime, covers_may, covers_origin, covers_relations,
    covers_said, covers_val, enter, gb_calls, gb_domain, gb_ram_bounds, handler, holds_bytes,
    is_limited, is_ram, is_stack_limited, known_bank, known_byte, known_bytes, leaves_area,
    left_by_dispatch, length_of, lies_in_high_ram, may_come, meets_closed_ram, read_in, reduced,
    resume, successors_of, test_alone,
};
pub use gb_text::sink::Plain;
pub use gb_text::{HeaderFault, Rom};
