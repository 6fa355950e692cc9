//! The calls that take memory, and whether each answers want of memory, the right answer, or anything else.

use bitflags::Flags;
use clap::error::ErrorKind;
use gb_bus::Memory;
use gb_events::gb_trace::gb_calls::gb_cert::{
    Cert, CertFault, CertificatePlan, NodePlan, ProcedurePlan, Version, WriteFault, encode,
    write_certificate,
};
use gb_events::gb_trace::{Outcome, UpgradeTo, Upgraded, upgrade_bytes, verify_bytes};
use gb_events::{
    Console, Ending, Progress, ReplayOutcome, WatchOutcome, read_events, replay_bytes, watch_bytes,
};
use gb_header::Rom;
use gb_ops::machine::{CodePlace, Region};
use gb_page::{
    Changes, Crash, CrashFinding, Extras, Facts, Finding, FindingsExtras, Older, Screen, Symbols,
    changes_json, crash_json, facts_json, findings_page, page_of,
};
use gb_text::kept_bytes::KeptBytes;
use gb_timer::irqs::Keys;
use gb_words::{Task, read_words};
use std::alloc::{AllocError, Global};

/// The nodes of the certificate.
pub const NODES: usize = 100;

/// The line where memory ran out.
const NO_MEMORY: &[u8] = b"CERTIFICATE C9\n";

/// The line of the certificate, which is right.
const ACCEPTED: &[u8] = b"ACCEPTED nodes 100 procedures 1\n";

/// The lines of two frames without a fault, and of four events.
const WHOLE_FRAMES: &[u8] = b"WHOLE frames 2\n";

const WHOLE_EVENTS: &[u8] = b"WHOLE events 4\n";

/// Work RAM.
const STACK: Region = Region {
    first: 0xC000,
    last: 0xDFFF,
};

/// The line of a cartridge without a byte.
const TOO_SHORT: &[u8] = b"CARTRIDGE H1\n";

/// What a call answered.
#[derive(Clone, Copy, PartialEq, Eq)]
pub enum CallAnswer {
    /// Want of memory.
    Refused,
    /// What it answers with enough memory.
    Right,
    /// Neither.
    Other,
}

/// The files, as they were made and read before memory ran out.
#[derive(Drop)]
pub struct GivenFiles<'a> {
    /// A cartridge that loops.
    pub rom: &'a Rom<'a>,
    /// Its certificate, of `NODES` nodes.
    pub cert: &'a Cert<'a>,
    /// The certificate with a byte left over.
    pub longer: &'a [u8],
    /// The certificate in version 2.
    pub upgraded: &'a [u8],
    /// A console at power-up.
    pub console: &'a Console<'a>,
    /// The certificate's procedures and nodes, as plain values.
    pub procedures: &'a [ProcedurePlan<'a>],
    pub nodes: &'a [NodePlan<'a>],
}

/// A call.
#[derive(Clone, Copy)]
pub enum Request {
    Parse,
    ParseLonger,
    Encode,
    WriteCertificate,
    Upgrade,
    Verify,
    VerifyNoCartridge,
    Memory,
    Console,
    CloneConsole,
    Watch,
    Replay,
    Facts,
    FactsJson,
    Page,
    ObstaclesPage,
    CrashPage,
    Changes,
    Words(&'static [&'static str], Option<Task<'static>>),
}

/// Whether a certificate was read.
fn parse(alloc: Global, files: &GivenFiles<'_>) -> CallAnswer {
    match Cert::parse(alloc, files.cert.bytes()) {
        Ok(cert) if cert.nodes() == NODES as u32 && cert.procedures() == 1 => CallAnswer::Right,
        Err(CertFault::Memory) => CallAnswer::Refused,
        _ => CallAnswer::Other,
    }
}

/// Whether the byte that is left over was met.
fn parse_longer(alloc: Global, files: &GivenFiles<'_>) -> CallAnswer {
    match Cert::parse(alloc, files.longer) {
        Err(CertFault::LeftOver) => CallAnswer::Right,
        Err(CertFault::Memory) => CallAnswer::Refused,
        _ => CallAnswer::Other,
    }
}

/// Whether a certificate was written as it is.
fn write(alloc: Global, files: &GivenFiles<'_>) -> CallAnswer {
    match encode(alloc, files.cert) {
        Ok(bytes) if bytes.as_slice() == files.cert.bytes() => CallAnswer::Right,
        Ok(_) => CallAnswer::Other,
        Err(_) => CallAnswer::Refused,
    }
}

/// Whether plain values were written as the certificate.
fn write_plain(alloc: Global, files: &GivenFiles<'_>) -> CallAnswer {
    let plan = CertificatePlan {
        version: Version::One,
        region: files.cert.region(),
        facts: &[],
        procedures: files.procedures,
        nodes: files.nodes,
    };
    match write_certificate(alloc, &plan) {
        Ok(bytes) if bytes.as_slice() == files.cert.bytes() => CallAnswer::Right,
        Err(WriteFault::Memory) => CallAnswer::Refused,
        _ => CallAnswer::Other,
    }
}

/// Whether a certificate was written in version 2.
fn upgrade(alloc: Global, files: &GivenFiles<'_>) -> CallAnswer {
    let mut out = KeptBytes::new(12_288, 12_288);
    match upgrade_bytes(alloc, files.cert.bytes(), UpgradeTo::Two, &mut out) {
        Ok(Upgraded::Written) if out.kept() == files.upgraded => CallAnswer::Right,
        Ok(Upgraded::NoMemory) if out.kept() == NO_MEMORY => CallAnswer::Refused,
        _ => CallAnswer::Other,
    }
}

/// Whether the verdict's line was written.
fn verify(alloc: Global, files: &GivenFiles<'_>) -> CallAnswer {
    let mut out = KeptBytes::new(96, 96);
    match verify_bytes(alloc, files.rom.bytes(), files.cert.bytes(), &mut out) {
        Ok(Outcome::Accepted) if out.kept() == ACCEPTED => CallAnswer::Right,
        Ok(Outcome::NoMemory) if out.kept() == NO_MEMORY => CallAnswer::Refused,
        _ => CallAnswer::Other,
    }
}

/// Whether a cartridge's fault was written.
fn verify_no_cartridge(alloc: Global, files: &GivenFiles<'_>) -> CallAnswer {
    let mut out = KeptBytes::new(96, 96);
    match verify_bytes(alloc, &[], files.cert.bytes(), &mut out) {
        Ok(Outcome::Unreadable) if out.kept() == TOO_SHORT => CallAnswer::Right,
        Ok(Outcome::NoMemory) => CallAnswer::Refused,
        _ => CallAnswer::Other,
    }
}

/// Whether there is a console's memory, with a dark screen.
fn memory(alloc: Global, files: &GivenFiles<'_>) -> CallAnswer {
    match Memory::new(alloc, files.rom) {
        Ok(memory) if memory.screen().iter().flatten().all(|shade| *shade == 0) =>
            CallAnswer::Right,
        Ok(_) => CallAnswer::Other,
        Err(_) => CallAnswer::Refused,
    }
}

/// Whether there is a console, whose first frame is whole with no more memory.
fn console(alloc: Global, files: &GivenFiles<'_>) -> CallAnswer {
    match Console::new(alloc, files.rom) {
        Ok(mut console) => match console.frame(Keys::from_bits_retain(0), 0) {
            Ending::Whole => CallAnswer::Right,
            _ => CallAnswer::Other,
        },
        Err(_) => CallAnswer::Refused,
    }
}

/// Whether a console was cloned, whose first frame is whole with no more memory.
fn clone_console(alloc: Global, files: &GivenFiles<'_>) -> CallAnswer {
    match files.console.try_clone(alloc) {
        Ok(mut console) => match console.frame(Keys::from_bits_retain(0), 0) {
            Ending::Whole => CallAnswer::Right,
            _ => CallAnswer::Other,
        },
        Err(_) => CallAnswer::Refused,
    }
}

/// Who waits for frames, and says nothing.
#[derive(Drop)]
struct Quiet;

impl Progress for Quiet {
    fn frame(&mut self, _number: u32, _frames: u32) {}

    fn done(&mut self) {}
}

/// Whether the line of a watched script was written.
fn watch(alloc: Global, files: &GivenFiles<'_>) -> CallAnswer {
    let mut out = KeptBytes::new(96, 96);
    let rom = files.rom.bytes();
    match watch_bytes(alloc, rom, &[], 2, STACK, &mut out, &mut Quiet) {
        Ok(WatchOutcome::Told(_)) if out.kept() == WHOLE_FRAMES => CallAnswer::Right,
        Ok(WatchOutcome::NoMemory) if out.kept().is_empty() => CallAnswer::Refused,
        _ => CallAnswer::Other,
    }
}

/// Whether a list of events was read, and then its line written.
fn replay(alloc: Global, files: &GivenFiles<'_>) -> CallAnswer {
    let list = match read_events(alloc, "run x4\n") {
        Ok(Ok(list)) => list,
        Ok(Err(_)) => return CallAnswer::Other,
        Err(_) => return CallAnswer::Refused,
    };
    let mut out = KeptBytes::new(96, 96);
    match replay_bytes(alloc, files.rom.bytes(), &list, STACK, &mut out) {
        Ok(ReplayOutcome::Told(_)) if out.kept() == WHOLE_EVENTS => CallAnswer::Right,
        Ok(ReplayOutcome::NoMemory) if out.kept().is_empty() => CallAnswer::Refused,
        _ => CallAnswer::Other,
    }
}

/// Whether the facts are those of the certificate: its jump, and behind it the program to its loop.
fn facts(alloc: Global, files: &GivenFiles<'_>) -> CallAnswer {
    match Facts::of(alloc, files.rom, files.cert) {
        Ok(facts) if facts.nodes == NODES as u32 && facts.code.len() == 2 => CallAnswer::Right,
        Ok(_) => CallAnswer::Other,
        Err(_) => CallAnswer::Refused,
    }
}

/// Whether a text was made that holds something and ends so.
fn text_with(made: Result<String, AllocError>, held: &str, end: &str) -> CallAnswer {
    match made {
        Ok(text) if text.as_str().contains(held) && text.as_str().ends_with(end) =>
            CallAnswer::Right,
        Ok(_) => CallAnswer::Other,
        Err(_) => CallAnswer::Refused,
    }
}

/// Whether the facts were made for programs.
fn json(alloc: Global, files: &GivenFiles<'_>) -> CallAnswer {
    let symbols = Symbols::none(alloc);
    let made = facts_json(alloc, files.rom, files.cert, &symbols, Extras::none());
    text_with(made, "\"nodes\":100,", "}")
}

/// Whether the page of the certificate was made.
fn page(alloc: Global, files: &GivenFiles<'_>) -> CallAnswer {
    let symbols = Symbols::none(alloc);
    let made = page_of(alloc, files.rom, files.cert, &symbols, Extras::none());
    text_with(made, "ACCEPTED nodes 100 procedures 1", "</html>\n")
}

/// Whether the page of an finding was made.
fn page_of_obstacles(alloc: Global, files: &GivenFiles<'_>) -> CallAnswer {
    let symbols = Symbols::none(alloc);
    let findings = [Finding::NoStack { sp: 0x8000 }];
    let made = findings_page(
        alloc,
        files.rom,
        &findings,
        &symbols,
        FindingsExtras::none(),
    );
    text_with(made, "ld sp, $8000` leaves no room", "</html>\n")
}

/// A screen of the lightest shade.
const SCREEN: &Screen = &[[0; 160]; 144];

/// A crash at power-up.
const CRASH: Crash<'static> = Crash {
    line: "FAULT F1 frame 0 pc 0150 bank 000",
    fault: 1,
    frame: 0,
    place: CodePlace {
        address: 0x0150,
        bank: 0,
    },
    story: "frame 0",
    keys: "none for 1 frame",
    key_words: "1",
    keys_file: None,
    replay: "gulmyrek watch",
    region: Region {
        first: 0xFF80,
        last: 0xFFFD,
    },
    finding: CrashFinding::Unknown,
    screen: SCREEN,
};

/// Whether the page of a crash was made, and then its JSON.
fn page_of_crash(alloc: Global, files: &GivenFiles<'_>) -> CallAnswer {
    let symbols = Symbols::none(alloc);
    let extras = FindingsExtras {
        are_new: false,
        crash: Some(&CRASH),
    };
    let findings = [Finding::Internal];
    let made = findings_page(alloc, files.rom, &findings, &symbols, extras);
    match text_with(made, "FAULT F1 frame 0 pc 0150 bank 000", "</html>\n") {
        CallAnswer::Right => { text_with(crash_json(alloc, &CRASH, &symbols), "\"fault\":1", "}}") }
        answer => answer,
    }
}

/// Whether the certificate changed nothing beside itself, and that was told.
fn changes(alloc: Global, files: &GivenFiles<'_>) -> CallAnswer {
    let symbols = Symbols::none(alloc);
    let older = Older {
        cert: files.cert,
        rom: Some(files.rom),
        symbols: None,
    };
    match Changes::of(alloc, files.rom, files.cert, &symbols, &older) {
        Ok(changes) if changes.is_none() => {
            text_with(changes_json(alloc, &changes), "\"is_changed\":false", "}")
        }
        Ok(_) => CallAnswer::Other,
        Err(_) => CallAnswer::Refused,
    }
}

/// Whether words are this task, or are refused where it is none.
fn words(alloc: Global, words: &[&str], expected: Option<Task<'_>>) -> CallAnswer {
    match read_words(alloc, words) {
        Ok(task) if Some(task) == expected => CallAnswer::Right,
        Err(error) if error.kind() == ErrorKind::OutOfMemory => CallAnswer::Refused,
        Err(error) if error.use_stderr() && expected.is_none() => CallAnswer::Right,
        _ => CallAnswer::Other,
    }
}

impl Request {
    /// Calls it.
    pub fn answer(self, alloc: Global, files: &GivenFiles<'_>) -> CallAnswer {
        match self {
            Request::Parse => parse(alloc, files),
            Request::ParseLonger => parse_longer(alloc, files),
            Request::Encode => write(alloc, files),
            Request::WriteCertificate => write_plain(alloc, files),
            Request::Upgrade => upgrade(alloc, files),
            Request::Verify => verify(alloc, files),
            Request::VerifyNoCartridge => verify_no_cartridge(alloc, files),
            Request::Memory => memory(alloc, files),
            Request::Console => console(alloc, files),
            Request::CloneConsole => clone_console(alloc, files),
            Request::Watch => watch(alloc, files),
            Request::Replay => replay(alloc, files),
            Request::Facts => facts(alloc, files),
            Request::FactsJson => json(alloc, files),
            Request::Page => page(alloc, files),
            Request::ObstaclesPage => page_of_obstacles(alloc, files),
            Request::CrashPage => page_of_crash(alloc, files),
            Request::Changes => changes(alloc, files),
            Request::Words(list, expected) => words(alloc, list, expected),
        }
    }
}
