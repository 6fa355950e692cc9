//! The command `watch` with a list of events.

use crate::messages::PROGRAM;
use crate::status::replay_status;
use crate::watching::{
    StackChoice, StackSource, read_named_certificate, region_given, stack_for, tell_wrong_symbols,
};
use gb_command_line::messages::{tell_cartridge, tell_memory, tell_output};
use gb_command_line::status::Status;
use gb_command_line::symbols::read_symbols;
use gb_command_line::words::tell_words;
use gb_command_line::{Plain, Rom, Symbols, Trouble, read_cartridge, read_file, shown_name};
use gb_events::{
    BadLine, EventList, FaultyReplay, LineFault, ReplayOutcome, Replayed, read_events,
    replay_bytes, trace_replay,
};
use gb_ops::machine::Region;
use gb_words::WatchOptions;
use std::io::{self, Input};
use std::rt::Files;

/// The most bytes of a list of events that are read.
const EVENTS_LIMIT: u64 = 0x400_0000;

/// The frames in which the first `ld sp, n16` is waited for.
const STACK_FRAMES: u32 = 600;

/// A list of events with the cartridge on which it is played.
#[derive(Clone, Copy)]
pub struct PlayedEvents<'a> {
    /// The cartridge's name.
    pub name: &'a str,
    pub rom: &'a [u8],
    pub list: &'a EventList,
    pub region: Region,
}

/// Says which line of a list can't be taken.
fn tell_line<R: Eprint>(rt: &R, name: &str, bad: BadLine) -> Status {
    let name = shown_name(name);
    let number = bad.number;
    let _ = match bad.fault {
        LineFault::NoEvent => eprintln!(rt;
            "{PROGRAM}: {name}: line {number} is no event: write run, irq N, haltstay, haltbug or wait N"
        ),
        LineFault::TooMany => eprintln!(rt; "{PROGRAM}: {name}: line {number}: too many events"),
    };
    Status::Unreadable
}

/// The list of a file's bytes, or the status where it is none.
fn list_of<R: Eprint + AllocGlobal>(
    rt: &R,
    name: &str,
    bytes: &[u8],
) -> Result<Result<EventList, Status>, Trouble> {
    let Ok(text) = str::from_utf8(bytes) else {
        let name = shown_name(name);
        let _ = eprintln!(rt; "{PROGRAM}: {name}: it isn't text");
        return Ok(Err(Status::Unreadable));
    };
    match read_events(rt.alloc(), text)? {
        Ok(list) => Ok(Ok(list)),
        Err(bad) => Ok(Err(tell_line(rt, name, bad))),
    }
}

/// Says what happened before a fault. Where memory runs out, nothing is said.
fn tell_fault<R: Eprint + AllocGlobal>(
    rt: &R,
    played: &PlayedEvents<'_>,
    run: &FaultyReplay<'_>,
    symbols: &Symbols<'_>,
) {
    let Ok(rom) = Rom::parse(played.rom) else {
        return;
    };
    let name = shown_name(played.name);
    if let Some(trace) = trace_replay(rt.alloc(), &rom, run, symbols) {
        let _ = eprintln!(rt; "{PROGRAM}: {name}: {trace}");
    }
    let _ = eprintln!(rt;
        "{PROGRAM}: {name}: the machine's rules allow this: an interrupt can come before any instruction while it is enabled"
    );
    let _ = eprintln!(rt;
        "{PROGRAM}: {name}: and hardware can give any byte; in `run` and `watch`, this console's timing may never show it"
    );
}

/// Plays the list and says how that went.
pub fn replay_played<R: Print + Eprint + AllocGlobal>(
    rt: &R,
    played: &PlayedEvents<'_>,
    symbols: &Symbols<'_>,
) -> Result<Status, Trouble> {
    let mut out = Plain::new(io::writer(rt));
    let PlayedEvents {
        name,
        rom,
        list,
        region,
    } = *played;
    let Ok(outcome) = replay_bytes(rt.alloc(), rom, list, region, &mut out) else {
        return Ok(tell_output(rt, PROGRAM));
    };
    match outcome {
        ReplayOutcome::NoMemory => tell_memory(rt, PROGRAM, name),
        ReplayOutcome::NoCartridge(fault) => tell_cartridge(rt, PROGRAM, name, fault),
        ReplayOutcome::Told(Replayed::Faulty(faulty)) => {
            let run = FaultyReplay {
                list,
                faulty,
                region,
            };
            tell_fault(rt, played, &run, symbols);
        }
        ReplayOutcome::Told(Replayed::Whole(_)) => {}
    }
    replay_status(outcome)
}

/// The command `watch` with a list of events.
pub fn replay<R: Print + Eprint + Input + Files + AllocGlobal>(
    rt: &R,
    rom: &str,
    events: &str,
    options: &WatchOptions<'_>,
) -> Result<Status, Trouble> {
    let named = match region_given(options.stack) {
        Ok(named) => named,
        Err(text) => return Ok(tell_words(rt, text)),
    };
    let rom_bytes = read_cartridge(rt, PROGRAM, rom)?;
    let bytes = read_file(rt, PROGRAM, events, EVENTS_LIMIT)?;
    let cert = read_named_certificate(rt, options)?;
    let text = read_symbols(rt, PROGRAM, options.symbols)?;
    let list = match list_of(rt, events, &bytes)? {
        Ok(list) => list,
        Err(status) => return Ok(status),
    };
    let symbols = match Symbols::parse(rt.alloc(), &text) {
        Ok(symbols) => symbols,
        Err(fault) => return tell_wrong_symbols(rt, options.symbols, fault),
    };
    let source = StackSource {
        name: rom,
        rom: &rom_bytes,
        cert: options.cert,
        cert_bytes: &cert,
        script: &[],
        frames: STACK_FRAMES,
    };
    match stack_for(rt, named, &source)? {
        StackChoice::Region(region) => {
            let played = PlayedEvents {
                name: rom,
                rom: &rom_bytes,
                list: &list,
                region,
            };
            replay_played(rt, &played, &symbols)
        }
        StackChoice::Ended(status) => Ok(status),
    }
}
