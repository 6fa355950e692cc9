//! Runs of the machine by lists of events: a fault that comes at some timing of interrupts, with some bytes from hardware, whether or
//! not the console's own timing ever has it.
//!
//! `EventList` is a list of events with their counts, and `text` its form in a file. `play_events` plays one over the plain machine, up
//! to the first event with a fault of a stack region; `specs/Replay.antt` says by the machine's definitions what it answers. Where some
//! certificate with the region is right for the cartridge, every list is played whole (`play::verified_replays_are_whole`).
//! `replay_bytes` is the same for a file, and writes a line. `trace_replay` says how the code got to a fault. `Storm` searches for such
//! a list: interrupts come between any two instructions where they are enabled, and hardware gives any byte. Nothing is promised of the
//! search but that it is safe, ends, and hands on a want of memory. Read `list` first, then `play`, `text`, `files`, `story`, `storm` and
//! `shortening`.
#![tactic(auto)]

pub mod files;
mod free;
pub mod line;
pub mod list;
pub mod play;
pub mod shortening;
mod snapshot;
pub mod storm;
pub mod story;
pub mod text;

pub use files::{ReplayOutcome, replay_bytes};
pub use line::replay_line;
pub use list::{EventList, Repeated};
pub use play::{
    FaultyEvent, Replayed, machine_of, play_events, verified_replays_are_whole,
    whole_replays_are_faultless,
};
pub use shortening::shorten_events;
pub use storm::{Patience, Storm};
pub use story::{FaultyReplay, trace_replay};
pub use text::{BadLine, LineFault, read_events, write_events};

// What lies below, for the crates above.
pub use gb_hunt::{
    Console, CountedIn, Ending, FaultyRun, FoundStack, Hunt, HuntProgress, KeyWords, PressedKeys,
    Progress, RunOutcome, WatchOutcome, Watched, certificate_line, find_stack, gb_trace,
    header_bytes, no_fault_line, play_again, put_all, run_bytes, shorten, show_bytes, trace_fault,
    watch_bytes,
};
pub use gb_plain;
pub use gb_text::sink::{OutFault, Sink};
