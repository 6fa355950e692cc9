//! Scripts that are watched for faults: the first event with a fault, in one line.
//!
//! `watch_script_shown` plays a script as `run` does and stops at the first event with a fault for a stack region. It writes one
//! line, whose text is `watched_text` in `specs/Witness.antt`. `played::watched_runs_are_played` joins that line to the machine's
//! run: over the events before it there is no fault, and with the event that is told exactly these. `watch_bytes` is the same for a
//! file, and `find_stack` finds a stack region where nobody names one. Read `fault` first, then `witness`.
#![tactic(auto)]

pub mod fault;
pub mod files;
pub mod line;
pub mod played;
pub mod stack;
pub mod witness;

pub use fault::{FaultKind, lowest_fault};
pub use files::{WatchOutcome, watch_bytes};
pub use line::{CountedIn, fault_line, no_fault_line};
pub use played::watched_runs_are_played;
pub use stack::{FoundStack, find_stack};
pub use witness::{WatchedRun, watch_line, watch_script, watch_script_shown};

// What lies below, for the crates above.
pub use gb_printed::{
    Abs, Answer, Cell, Cert, CertFault, Console, Core, Ctl, Ending, FRAME_CYCLES, Flg, ImeSet,
    Input, KeptBanks, Keys, May, Memory, Met, OneByte, Origin, Outcome, Program, Progress, Range,
    Reason, Relations, Rules, RunOutcome, Setting, Sighting, Silence, Span, Stepped, Test,
    UpgradeTo, Upgraded, Val, Verdict, Watched, callee, certificate_line, check, check_irqs,
    check_node, covered_at, covers, ending_line, enter, gb_calls, header_bytes, header_line,
    keys_at, place_now, resume, run_bytes, run_script, run_script_shown, seconds_of, show_bytes,
    show_cert, steps_are_played, successors_of, upgrade_bytes, verdict_ignores_version,
    verify_bytes, watch_frame,
};
pub use gb_text::put::put_all;
pub use gb_text::{HeaderFault, Rom};
