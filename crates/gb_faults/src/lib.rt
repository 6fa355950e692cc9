//! The faults of an event, from what it met.
//!
//! `event_faults` takes the processor and the limits of accesses as they were before the event, and what the
//! event met (`gb_cpu::step::Met`). The key contract: its faults are the definition's
//! (`proofs/Meeting.antt`, `met_faults_are`). `Guard` has a cheap test before an instruction, and where it says so,
//! the instruction has no fault. Read `limits` first, then `accesses`, `event`, `touch` and `guard`.
#![tactic(auto)]

mod accesses;
pub mod event;
pub mod guard;
pub mod limits;
pub mod touch;

pub use accesses::no_faults;
pub use event::event_faults;
pub use guard::Guard;
pub use limits::Limits;
