//! The lines that the program prints: of a cartridge's header, of a certificate, and of a run by a script.
//!
//! `run_bytes` says that what is written is the run of the file's cartridge, and `header_bytes` that it is its header's
//! line. `show_bytes` says the same of a certificate's lines. Read `commands` first, and below it `header`, `show`,
//! `script` and `screen`.
#![tactic(auto)]

pub mod commands;
pub mod header;
mod screen;
pub mod script;
pub mod show;

pub use commands::{RunOutcome, header_bytes, run_bytes, show_bytes};
pub use header::header_line;
pub use script::{
    Progress, Silence, ending_line, keys_at, run_script, run_script_shown, seconds_of,
};
pub use show::{push_bank, show_cert};

// What lies below, for the crates above.
pub use gb_watch::{
    Abs, Answer, Cell, Cert, CertFault, Console, Core, Ctl, Ending, FRAME_CYCLES, Flg, ImeSet,
    Input, KeptBanks, Keys, May, Memory, Met, OneByte, Origin, Outcome, Program, Range, Reason,
    Relations, Rules, Setting, Sighting, Span, Stepped, Test, UpgradeTo, Upgraded, Val, Verdict,
    Watched, callee, certificate_line, check, check_irqs, check_node, covered_at, covers, enter,
    gb_calls, place_now, resume, steps_are_played, successors_of, upgrade_bytes,
    verdict_ignores_version, verify_bytes, watch_frame, watched_frames_are_played,
};
