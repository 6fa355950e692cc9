//! A crash that keys lead to: what is said of it, and the file of its keys.

use crate::files::{is_special, write_whole};
use crate::words::CertifyTask;
use gb_command_line::{Rom, Trouble};
use gb_hunt::{
    Console, FaultyRun, Find, KeyWords, PressedKeys, Progress, Replay, Trace, TraceHead, Watched,
    WatchedRun, keys_at, lowest_fault, replayed, seconds_of, trace_fault, watch_line,
};
use gb_ops::machine::{CodePlace, Region};
use gb_page::{Crash, CrashFinding, Symbols};
use std::alloc::{AllocError, Global};
use std::rt::Files;
use std::{fmt, str};

/// The ending of the name of the file of keys.
const KEYS: &str = ".crash.keys";

/// The most changes of keys that are put into words.
const CHANGES: usize = 24;

/// What is said of a crash.
#[derive(Drop)]
struct CrashTexts {
    /// The line that `gulmyrek watch` prints, without its end.
    line: String,
    /// The first lines of what happened.
    head: String,
    /// All of them.
    story: String,
    /// The keys in words.
    keys: String,
    /// The keys as `tools/keys` reads them.
    key_words: String,
}

/// A crash, with what is said of it.
#[derive(Drop)]
pub struct FoundCrash<'r> {
    find: Find,
    frame: u32,
    region: Region,
    script: Vec<u8>,
    /// The console after the fault.
    console: Console<'r>,
    texts: CrashTexts,
    /// The file of the keys, once it is written.
    keys_file: Option<String>,
    pub finding: CrashFinding,
}

/// The certificate's name without its ending.
fn stem_of<'a>(cert: &'a str) -> &'a str {
    cert.strip_suffix(".cert").unwrap_or(cert)
}

/// Whether a file has the name that the file of keys gets, by the certificate's.
pub fn is_keys_file(cert: &str, name: &str) -> bool {
    name.strip_suffix(KEYS) == Some(stem_of(cert))
}

/// The line that `gulmyrek watch` prints, without its end.
fn line_of(alloc: Global, run: &FaultyRun<'_>) -> Result<String, AllocError> {
    let told = WatchedRun {
        watched: Watched::Faulted(run.sighting),
        number: run.frame,
    };
    let line = watch_line(told, run.sighting.place.address);
    let text = str::from_utf8(line.as_slice()).unwrap_or("");
    String::from_str(alloc, text.trim_end())
}

/// What is said of a crash, whose story is this.
fn texts_with(
    alloc: Global,
    run: &FaultyRun<'_>,
    trace: &Trace<'_>,
) -> Result<CrashTexts, AllocError> {
    let head = TraceHead(trace);
    let words = KeyWords(run.script);
    let pressed = PressedKeys {
        script: run.script,
        most: CHANGES,
    };
    Ok(CrashTexts {
        line: line_of(alloc, run)?,
        head: format!(in alloc; "{head}")?,
        story: format!(in alloc; "{trace}")?,
        keys: format!(in alloc; "{pressed}")?,
        key_words: format!(in alloc; "{words}")?,
    })
}

/// What is said of a crash, with the symbols of its places.
fn texts_of<P: Progress>(
    alloc: Global,
    rom: &Rom<'_>,
    run: &FaultyRun<'_>,
    symbols: &Symbols<'_>,
    progress: &mut P,
) -> Result<CrashTexts, AllocError> {
    match trace_fault(alloc, rom, run, symbols, progress) {
        Some(trace) => texts_with(alloc, run, &trace),
        None => Err(AllocError),
    }
}

/// The address of the next instruction, with the ROM bank that is shown there; 0 for RAM.
fn place_now(console: &Console<'_>) -> CodePlace {
    let address = console.pc();
    let bank = if address < 0x8000 {
        console.memory().shown_bank(address)
    } else {
        0
    };
    CodePlace { address, bank }
}

/// The number of the first of some places that is this one, from 0.
pub fn number_of(places: &[Option<CodePlace>], place: CodePlace) -> Option<usize> {
    for (number, other) in places.iter().enumerate() {
        if *other == Some(place) {
            return Some(number);
        }
    }
    None
}

/// How keys are played again: from their file, or where there is none from their words.
#[derive(Clone, Copy)]
struct ShownReplay<'a, 'r> {
    rom: &'a str,
    crash: &'a FoundCrash<'r>,
}

impl fmt::Display for ShownReplay<'_, '_> {
    fn fmt<W: fmt::Write>(&self, f: &mut fmt::Formatter<W>) -> fmt::Result {
        let rom = self.rom;
        let frames = self.crash.script.len();
        let Region { first, last } = self.crash.region;
        match &self.crash.keys_file {
            Some(name) => write!(f, "gulmyrek watch {rom} {name} {frames}")?,
            None => {
                let words = self.crash.texts.key_words.as_str();
                write!(f, "tools/keys {words} | gulmyrek watch {rom} - {frames}")?;
            }
        }
        write!(f, " --stack {first:04X}..{last:04X}")
    }
}

impl<'r> FoundCrash<'r> {
    /// The crash to which a script leads, with the symbols of its places; None where it leads to none.
    ///
    /// # Errors
    ///
    /// Where memory ran out.
    pub fn of<P: Progress>(
        alloc: Global,
        rom: &Rom<'r>,
        script: Vec<u8>,
        region: Region,
        symbols: &Symbols<'_>,
        progress: &mut P,
    ) -> Result<Option<FoundCrash<'r>>, AllocError> {
        let Replay { console, find } = replayed(alloc, rom, &script, region)?;
        let Some(find) = find else {
            return Ok(None);
        };
        let frame = u32::try_from(find.frame).unwrap_or(u32::MAX);
        let run = FaultyRun {
            script: &script,
            frame,
            sighting: find.sighting,
            region,
        };
        let texts = texts_of(alloc, rom, &run, symbols, progress)?;
        Ok(Some(FoundCrash {
            find,
            frame,
            region,
            script,
            console,
            texts,
            keys_file: None,
            finding: CrashFinding::Unknown,
        }))
    }

    /// Where it happens.
    pub fn place(&self) -> CodePlace {
        self.find.sighting.place
    }

    /// A console that has played the frames before the one in which it happens.
    fn console_before<'x>(&self, alloc: Global, rom: &Rom<'x>) -> Result<Console<'x>, AllocError> {
        let mut console = Console::new(alloc, rom)?;
        for frame in 0..self.frame {
            console.frame(keys_at(&self.script, frame), seconds_of(frame));
        }
        Ok(console)
    }

    /// The last of some places, by its number, that the frame in which it happens came to before it.
    ///
    /// # Errors
    ///
    /// Where memory ran out.
    pub fn last_before(
        &self,
        alloc: Global,
        rom: &Rom<'_>,
        places: &[Option<CodePlace>],
    ) -> Result<Option<usize>, AllocError> {
        let mut console = self.console_before(alloc, rom)?;
        let keys = keys_at(&self.script, self.frame);
        let mut seconds = seconds_of(self.frame);
        let mut last = None;
        for _ in 0..self.find.sighting.number {
            last = number_of(places, place_now(&console)).or(last);
            console.advance(keys, seconds);
            seconds = 0;
        }
        Ok(last)
    }

    /// Writes the file of keys beside the certificate's, unless that is a device. Standard error says why it can't be
    /// written.
    ///
    /// # Errors
    ///
    /// Where memory ran out, or the file can't be written.
    pub fn write_keys<R: Eprint + Files + AllocGlobal>(
        &mut self,
        rt: &R,
        cert: &str,
    ) -> Result<(), Trouble> {
        if is_special(rt, cert) {
            return Ok(());
        }
        let stem = stem_of(cert);
        let name = format!(in rt.alloc(); "{stem}{KEYS}")?;
        write_whole(rt, name.as_str(), &self.script)?;
        self.keys_file = Some(name);
        Ok(())
    }

    /// How its keys are played again.
    ///
    /// # Errors
    ///
    /// Where memory ran out.
    pub fn replay(&self, alloc: Global, task: &CertifyTask<'_>) -> Result<String, AllocError> {
        let shown = ShownReplay {
            rom: task.rom,
            crash: self,
        };
        format!(in alloc; "{shown}")
    }

    /// What the page and the JSON say of it.
    pub fn facts<'a>(&'a self, replay: &'a str) -> Crash<'a> {
        Crash {
            line: self.texts.line.as_str(),
            fault: lowest_fault(self.find.sighting.faults).number(),
            frame: self.frame,
            place: self.find.sighting.place,
            story: self.texts.story.as_str(),
            keys: self.texts.keys.as_str(),
            key_words: self.texts.key_words.as_str(),
            keys_file: self.keys_file.as_ref().map(|name| name.as_str()),
            replay,
            region: self.region,
            finding: self.finding,
            screen: self.console.screen(),
        }
    }

    /// Says what crashes, and by which keys.
    pub fn tell<R: Eprint>(&self, rt: &R, task: &CertifyTask<'_>, symbols: &Symbols<'_>) {
        let shown = ShownCrash { task, crash: self };
        let place = self.place();
        let _ = match symbols.line(place.bank, place.address) {
            Some(line) => eprintln!(rt; "{line}: {shown}"),
            None => eprintln!(rt; "{shown}"),
        };
    }
}

/// A crash in lines, the last without an end.
#[derive(Clone, Copy)]
struct ShownCrash<'a, 't, 'r> {
    task: &'a CertifyTask<'t>,
    crash: &'a FoundCrash<'r>,
}

impl fmt::Display for ShownCrash<'_, '_, '_> {
    fn fmt<W: fmt::Write>(&self, f: &mut fmt::Formatter<W>) -> fmt::Result {
        let crash = self.crash;
        let CrashTexts {
            line,
            head,
            keys,
            ..
        } = &crash.texts;
        let (line, head, keys) = (line.as_str(), head.as_str(), keys.as_str());
        let replay = ShownReplay {
            rom: self.task.rom,
            crash,
        };
        write!(f, "This crashes: {line}\n  In {head}")?;
        write!(
            f,
            "\n  Keys from power-up: {keys}\n  Play it again: {replay}"
        )?;
        match crash.finding {
            CrashFinding::Unknown => write!(f, "\n  No finding is at this place."),
            CrashFinding::First => write!(f, "\n  Finding 1 is at this place."),
            CrashFinding::Before(number) => write!(
                f,
                "\n  No finding is at this place. The instruction of finding {number} ran before it, in the same frame."
            ),
        }
    }
}
