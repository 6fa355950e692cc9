//! Frames of the console that are watched for faults.
//!
//! `watch_frame` is a frame up to its first event with a fault for a stack region: the definition's faults
//! (`gb_ops/specs/Faults.antt`) of the very event that the console answers, and none is told where there is none
//! (`specs/Watch.antt`). `played::watched_frames_are_played` says the same of the machine's runs; where some
//! certificate with the region is right for the cartridge, no fault is told (`specs/Verified.antt`). Most instructions
//! run after a cheap test that says that they have no fault (`gb_faults::Guard`); every other step's faults are
//! computed from what it met. Read `sighting` first, then `frame`.
#![tactic(auto)]

pub mod frame;
pub mod played;
pub mod sighting;

pub use frame::{place_now, watch_frame};
pub use played::watched_frames_are_played;
pub use sighting::{Sighting, Watched};

// What lies below, for the crates above.
pub use gb_console::run::steps_are_played;
pub use gb_console::{
    Abs, Answer, Cell, Cert, CertFault, Console, Core, Ctl, Ending, FRAME_CYCLES, Flg, HEIGHT,
    ImeSet, Input, KeptBanks, Keys, May, Memory, Met, NodeRef, OneByte, Origin, Outcome,
    ProcedureRef, Program, Range, Reason, Relations, Rules, Setting, Span, Stepped, Test,
    UpgradeTo, Upgraded, Val, Verdict, WIDTH, callee, certificate_line, check, check_irqs,
    check_node, covered_at, covers, enter, gb_calls, resume, successors_of, upgrade_bytes,
    verdict_ignores_version, verify_bytes,
};
