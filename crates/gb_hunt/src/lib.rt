//! The search for keys that lead a cartridge to a fault.
//!
//! `Hunt` plays a cartridge by keys of its own, from power-up and from consoles that it kept, towards code that hasn't run yet and
//! pictures that weren't seen; a caller may name places that it goes towards. Each frame is watched for faults of a stack region. Nothing is promised of the search but that it is safe,
//! ends, and hands on a want of memory; what it finds is a script, which anybody can play again. `shorten` makes that script
//! shorter. Read `hunt` first, then `explore`, `seen`, `presses` and `shortening`.
#![tactic(auto)]

mod explore;
pub mod hunt;
mod leads;
pub mod play;
mod presses;
mod seen;
pub mod shortening;

pub use hunt::{Hunt, HuntProgress};
pub use play::{Find, Replay, play_again, replayed};
pub use shortening::shorten;

// What lies below, for the crates above.
pub use gb_trace;
pub use gb_trace::{
    Console, CountedIn, Ending, FaultMoment, FaultyRun, FoundStack, HardwareBytes, HeaderFault,
    KeyWords, Keys, Met, PressedKeys, Progress, Recorder, Rom, RunOutcome, Sighting, Stepped,
    Symbols, TouchedByte, Trace, TraceHead, TracedFault, Verdict, WatchOutcome, Watched,
    WatchedRun, certificate_line, check, fault_line, find_stack, has_ram, header_bytes, keys_at,
    lowest_fault, no_fault_line, put_all, run_bytes, seconds_of, show_bytes, touch_at_fault,
    trace_fault, watch_bytes, watch_line,
};
