//! What happened before a fault, in an author's words.
//!
//! `trace_fault` plays a script again from power-up, since a console plays the same each time, and keeps the last instructions and the calls
//! that are open, of its last minute. A `Recorder` keeps them of any other run. The `Trace` prints what went wrong, where, and how the code got there. Read
//! `trace` first, then `recorder` and `happening`; `keys` has a script's keys in words. It promises nothing but that it is safe and ends.
#![tactic(auto)]

mod calls;
mod happening;
mod keys;
mod listing;
mod recent;
mod recorder;
mod touch;
mod trace;

pub use keys::{KeyWords, PressedKeys};
pub use recent::HardwareBytes;
pub use recorder::Recorder;
pub use touch::{TouchedByte, touch_at_fault};
pub use trace::{FaultMoment, FaultyRun, Trace, TraceHead, TracedFault, has_ram, trace_fault};

// What lies below, for the crates above.
pub use gb_symbols::{SymbolFault, Symbols};
pub use gb_witness::{
    Abs, Answer, Cell, Cert, CertFault, Console, Core, CountedIn, Ctl, Ending, FaultKind, Flg,
    FoundStack, HeaderFault, ImeSet, Input, KeptBanks, Keys, May, Met, OneByte, Origin, Outcome,
    Program, Progress, Range, Reason, Relations, Rom, Rules, RunOutcome, Setting, Sighting, Span,
    Stepped, Test, UpgradeTo, Upgraded, Val, Verdict, WatchOutcome, Watched, WatchedRun, callee,
    certificate_line, check, check_irqs, check_node, covered_at, covers, ending_line, enter,
    fault_line, find_stack, gb_calls, header_bytes, header_line, keys_at, lowest_fault,
    no_fault_line, put_all, resume, run_bytes, run_script, run_script_shown, seconds_of,
    show_bytes, show_cert, steps_are_played, successors_of, upgrade_bytes, verdict_ignores_version,
    verify_bytes, watch_bytes, watch_frame, watch_line, watch_script, watch_script_shown,
    watched_runs_are_played,
};
