//! The command `watch`.

use crate::messages::PROGRAM;
use crate::perform::tell_certificate;
use crate::progress::FramesShown;
use crate::status::{show_status, watch_status};
use gb_command_line::messages::{tell_cartridge, tell_memory, tell_output};
use gb_command_line::stack::{WRONG_STACK, region_of};
use gb_command_line::status::Status;
use gb_command_line::symbols::{read_symbols, tell_symbols};
use gb_command_line::words::tell_words;
use gb_command_line::{
    Cert, Plain, Rom, SymbolFault, Symbols, Trouble, read_cartridge, read_certificate, read_file,
    shown_name,
};
use gb_events::{
    Console, FaultyRun, FoundStack, WatchOutcome, Watched, certificate_line, find_stack, put_all,
    trace_fault, watch_bytes,
};
use gb_ops::machine::Region;
use gb_words::WatchOptions;
use std::io::{self, Input};
use std::rt::Files;

/// What `watch` is asked to play.
#[derive(Clone, Copy)]
pub struct WatchedFiles<'a> {
    pub rom: &'a str,
    pub script: &'a str,
    pub frames: u32,
    pub options: WatchOptions<'a>,
}

/// The bytes of its files.
#[derive(Drop)]
struct WatchedBytes {
    rom: Vec<u8>,
    script: Vec<u8>,
    cert: Vec<u8>,
}

/// A script with the cartridge that it plays.
#[derive(Clone, Copy)]
pub struct PlayedScript<'a> {
    /// The cartridge's name.
    pub name: &'a str,
    pub rom: &'a [u8],
    pub script: &'a [u8],
    pub frames: u32,
    pub region: Region,
}

/// What a stack region is found by, where the words name none.
#[derive(Clone, Copy)]
pub struct StackSource<'a> {
    /// The cartridge's name.
    pub name: &'a str,
    pub rom: &'a [u8],
    /// The name of a certificate.
    pub cert: Option<&'a str>,
    pub cert_bytes: &'a [u8],
    pub script: &'a [u8],
    pub frames: u32,
}

/// A stack region, or the status where there is none.
pub enum StackChoice {
    Region(Region),
    Ended(Status),
}

/// The stack region that the words name, or what is wrong with it.
pub fn region_given(given: Option<&str>) -> Result<Option<Region>, &'static str> {
    match given {
        None => Ok(None),
        Some(given) => match region_of(given) {
            Some(region) => Ok(Some(region)),
            None => Err(WRONG_STACK),
        },
    }
}

/// Reads the files. Of a script no more is read than there are frames.
fn read_files<R: Eprint + Input + Files + AllocGlobal>(
    rt: &R,
    files: &WatchedFiles<'_>,
) -> Result<WatchedBytes, Trouble> {
    let rom = read_cartridge(rt, PROGRAM, files.rom)?;
    let script = read_file(rt, PROGRAM, files.script, u64::from(files.frames))?;
    let cert = read_named_certificate(rt, &files.options)?;
    Ok(WatchedBytes { rom, script, cert })
}

/// The region of a certificate, or the line of its fault.
fn certified_stack<R: Print + Eprint + AllocGlobal>(
    rt: &R,
    name: &str,
    bytes: &[u8],
) -> StackChoice {
    let fault = match Cert::parse(rt.alloc(), bytes) {
        Ok(cert) => return StackChoice::Region(cert.region()),
        Err(fault) => fault,
    };
    let mut out = Plain::new(io::writer(rt));
    if put_all(&mut out, certificate_line(fault).as_slice()).is_err() {
        return StackChoice::Ended(tell_output(rt, PROGRAM));
    }
    let status = show_status(Some(fault));
    tell_certificate(rt, name, bytes, status);
    StackChoice::Ended(status)
}

/// The RAM below the first address that the run sets SP to.
pub fn played_stack<R: Eprint + AllocGlobal>(
    rt: &R,
    name: &str,
    rom: &Rom<'_>,
    script: &[u8],
    frames: u32,
) -> Result<StackChoice, Trouble> {
    let mut console = Console::new(rt.alloc(), rom)?;
    match find_stack(&mut console, script, frames) {
        FoundStack::Below(region) => Ok(StackChoice::Region(region)),
        FoundStack::NotRam(sp) => {
            let name = shown_name(name);
            let _ = eprintln!(rt;
                "{PROGRAM}: {name}: `ld sp, ${sp:04X}` leaves no WRAM or HRAM below SP: name the stack with --stack"
            );
            Ok(StackChoice::Ended(Status::Unreadable))
        }
    }
}

/// The stack region: the one that the words name, or the certificate's, or the one that the run sets SP above.
pub fn stack_for<R: Print + Eprint + AllocGlobal>(
    rt: &R,
    named: Option<Region>,
    source: &StackSource<'_>,
) -> Result<StackChoice, Trouble> {
    let Ok(rom) = Rom::parse(source.rom) else {
        // Its fault is told where it is to be played.
        let (first, last) = (0xC000, 0xDFFF);
        return Ok(StackChoice::Region(Region { first, last }));
    };
    match (named, source.cert) {
        (Some(region), _) => Ok(StackChoice::Region(region)),
        (None, Some(name)) => Ok(certified_stack(rt, name, source.cert_bytes)),
        (None, None) => played_stack(rt, source.name, &rom, source.script, source.frames),
    }
}

/// The bytes of the certificate that the options name; none where they name none.
pub fn read_named_certificate<R: Eprint + Input + Files + AllocGlobal>(
    rt: &R,
    options: &WatchOptions<'_>,
) -> Result<Vec<u8>, Trouble> {
    match options.cert {
        Some(name) => read_certificate(rt, PROGRAM, name),
        None => Ok(Vec::new(rt.alloc())),
    }
}

/// Says what happened before a fault. Where memory runs out, nothing is said.
fn tell_fault<R: Eprint + AllocGlobal>(
    rt: &R,
    name: &str,
    rom: &[u8],
    run: &FaultyRun<'_>,
    symbols: &Symbols<'_>,
    progress: &mut FramesShown<'_, R>,
) {
    if let Ok(rom) = Rom::parse(rom)
        && let Some(trace) = trace_fault(rt.alloc(), &rom, run, symbols, progress)
    {
        let name = shown_name(name);
        let _ = eprintln!(rt; "{PROGRAM}: {name}: {trace}");
    }
}

/// Plays the script and says how that went.
pub fn watch_played<R: Print + Eprint + AllocGlobal>(
    rt: &R,
    played: &PlayedScript<'_>,
    symbols: &Symbols<'_>,
    is_shown: bool,
) -> Result<Status, Trouble> {
    let mut out = Plain::new(io::writer(rt));
    let mut progress = FramesShown::new(rt, is_shown);
    let PlayedScript {
        name,
        rom,
        script,
        frames,
        region,
    } = *played;
    let watched = watch_bytes(
        rt.alloc(),
        rom,
        script,
        frames,
        region,
        &mut out,
        &mut progress,
    );
    let Ok(outcome) = watched else {
        return Ok(tell_output(rt, PROGRAM));
    };
    match outcome {
        WatchOutcome::NoMemory => tell_memory(rt, PROGRAM, name),
        WatchOutcome::NoCartridge(fault) => tell_cartridge(rt, PROGRAM, name, fault),
        WatchOutcome::Told(run) => {
            if let Watched::Faulted(sighting) = run.watched {
                let run = FaultyRun {
                    script,
                    frame: run.number,
                    sighting,
                    region,
                };
                tell_fault(rt, name, rom, &run, symbols, &mut progress);
            }
        }
    }
    watch_status(outcome)
}

/// Says what is wrong with a file of symbols; where none is named, memory ran out.
pub fn tell_wrong_symbols<R: Eprint>(
    rt: &R,
    name: Option<&str>,
    fault: SymbolFault,
) -> Result<Status, Trouble> {
    match name {
        Some(name) => tell_symbols(rt, PROGRAM, name, fault),
        None => Err(Trouble::Memory),
    }
}

/// The command `watch`.
pub fn watch<R: Print + Eprint + Input + Files + AllocGlobal>(
    rt: &R,
    files: &WatchedFiles<'_>,
    is_shown: bool,
) -> Result<Status, Trouble> {
    let named = match region_given(files.options.stack) {
        Ok(named) => named,
        Err(text) => return Ok(tell_words(rt, text)),
    };
    let bytes = read_files(rt, files)?;
    let text = read_symbols(rt, PROGRAM, files.options.symbols)?;
    let symbols = match Symbols::parse(rt.alloc(), &text) {
        Ok(symbols) => symbols,
        Err(fault) => return tell_wrong_symbols(rt, files.options.symbols, fault),
    };
    let source = StackSource {
        name: files.rom,
        rom: &bytes.rom,
        cert: files.options.cert,
        cert_bytes: &bytes.cert,
        script: &bytes.script,
        frames: files.frames,
    };
    match stack_for(rt, named, &source)? {
        StackChoice::Region(region) => {
            let played = PlayedScript {
                name: files.rom,
                rom: &bytes.rom,
                script: &bytes.script,
                frames: files.frames,
                region,
            };
            watch_played(rt, &played, &symbols, is_shown)
        }
        StackChoice::Ended(status) => Ok(status),
    }
}
