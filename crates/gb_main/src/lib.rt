//! The front door: every public call and type of the checker and the console, each by its plain name.
//!
//! # The checker
//!
//! 1. `Rom::parse` reads a cartridge's bytes, or says what is wrong with them (H1 to H7).
//! 2. `Cert::parse` reads a certificate's bytes, or says what is wrong with them (C1 to C9).
//! 3. `check` answers the verdict. Where it is `Accepted`, every run of the cartridge from power-up is safe.
//!
//! `verify_bytes` does all three and writes the line of the verdict to a `Sink`: `Plain` is one over std's writers, `KeptBytes`
//! one in memory. `check_node` and `check_irqs` ask a single node; `show_cert`, `encode`, `write_certificate` and
//! `upgrade_bytes` print and write certificates.
//!
//! # The console
//!
//! 1. `Rom::parse`, as above.
//! 2. `Console::new` makes a console at power-up.
//! 3. `Console::frame` runs a frame with the keys that are held, `Console::step` one event; `Console::screen` lends the picture.
//!
//! `run_script` runs frames by a script of keys and writes the last screen. `watch_frame` is a frame that stops at the first fault
//! of a stack region, and reports exactly that one. `PlainMachine` is the machine by itself, with
//! each event handed in.
//!
//! `callers` has both as functions of a few lines.
#![tactic(auto)]

pub mod callers;

// Cartridges, and where text goes.
pub use gb_text::put::put_all;
pub use gb_text::{HeaderFault, KeptBytes, Line, OutFault, Plain, PutFault, Rom, Sink};

// The machine.
pub use gb_events::gb_plain::faults::faults;
pub use gb_events::gb_plain::places::places;
pub use gb_events::gb_plain::{Cartridge, MachineState, PlaceList, PlainMachine};
pub use gb_ops::decode::decode;
pub use gb_ops::{
    Banks, CodePlace, Event, Faults, Ime, Kind, Op, Processor, ReadSource, Region, Register, Row,
};

// The console, and what it is made of.
pub use gb_bus::Bus;
pub use gb_cpu::{Cpu, HEIGHT, Irqs, Memory, Stepped, WIDTH, next_irq};
pub use gb_dma::Transfer;
pub use gb_events::gb_trace::{
    Console, Ending, FaultKind, FaultyRun, FoundStack, Input, KeyWords, Keys, PressedKeys,
    Sighting, SymbolFault, Symbols, Trace, TraceHead, WatchOutcome, Watched, WatchedRun,
    find_stack, keys_at, lowest_fault, seconds_of, steps_are_played, trace_fault, watch_bytes,
    watch_frame, watch_line, watch_script, watch_script_shown, watched_runs_are_played,
};
pub use gb_mbc::{Clock, ClockRegister, Controller, Flat, Mapper, Mbc1, Mbc3, Mbc5, Time};
pub use gb_ppu::lanes::{shades, tile_row};
pub use gb_ppu::line::render_line;
pub use gb_ppu::{LcdRegister, Mode, Ppu, Scene};
pub use gb_timer::{Joypad, Timer};

// Lists of events, and searches for a crash.
pub use gb_events::{
    BadLine, CountedIn, EventList, FaultyEvent, FaultyReplay, Hunt, HuntProgress, LineFault,
    Patience, Progress, Repeated, ReplayOutcome, Replayed, Storm, machine_of, no_fault_line,
    play_again, play_events, read_events, replay_bytes, replay_line, shorten, shorten_events,
    trace_replay, verified_replays_are_whole, whole_replays_are_faultless, write_events,
};

// Certificates.
pub use gb_events::gb_trace::gb_calls::gb_cert::{
    Cert, CertFault, CertificatePlan, Found, NodePlan, NodeRef, ProcedurePlan, ProcedureRef,
    Search, Version, WriteFault, encode, older_rules, one_spelling, write_certificate,
};
pub use gb_events::gb_trace::{
    Abs, Cell, Core, Ctl, Flg, ImeSet, KeptBanks, May, OneByte, Origin, Range, Relations, Rules,
    Setting, Span, Test, Val,
};

// Operations on values, on states, and the rules of nodes.
pub use gb_events::gb_trace::gb_calls::gb_abs_memory::load::load;
pub use gb_events::gb_trace::gb_calls::gb_abs_memory::store::store;
pub use gb_events::gb_trace::gb_calls::gb_abs_memory::{Area, Stored};
pub use gb_events::gb_trace::gb_calls::{Resumed, Return};
pub use gb_events::gb_trace::{
    Program, Reason, callee, check_irqs, check_node, covered_at, covers, enter, resume,
    successors_of,
};
pub use gb_rows::{Rows, find_in, first_near, found_from};
pub use gb_vals::alu::{alu, alu_itself};
pub use gb_vals::bits::{reset_bit, set_bit, test_bit};
pub use gb_vals::carry::{complement_carry, set_carry};
pub use gb_vals::daa::adjust;
pub use gb_vals::logic::complement;
pub use gb_vals::shifts::{rotate_a, shift};
pub use gb_vals::sums::{decrement, increment};
pub use gb_vals::{AbsComputed, strided};

// The verdict, and texts.
pub use gb_events::gb_trace::{
    Answer, Outcome, RunOutcome, UpgradeTo, Upgraded, Verdict, check, ending_line, header_bytes,
    header_line, run_bytes, run_script, run_script_shown, show_bytes, show_cert, upgrade_bytes,
    verdict_ignores_version, verify_bytes,
};
pub use gb_words::{
    HuntOption, HuntOptions, TargetVersion, Task, WatchOption, WatchOptions, read_words,
};
