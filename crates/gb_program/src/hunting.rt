//! The command `hunt`.

use crate::messages::{PROGRAM, tell_written};
use crate::progress::HuntShown;
use crate::storming::storm_region;
use crate::watching::{
    PlayedScript, StackChoice, played_stack, region_given, tell_wrong_symbols, watch_played,
};
use gb_command_line::messages::tell_output;
use gb_command_line::status::Status;
use gb_command_line::symbols::read_symbols;
use gb_command_line::words::tell_words;
use gb_command_line::{Plain, Rom, Symbols, Trouble, is_input, read_cartridge, shown_name};
use gb_events::{CountedIn, Hunt, no_fault_line, put_all, shorten};
use gb_ops::machine::Region;
use gb_words::HuntOptions;
use std::fs;
use std::io::{self, Input};
use std::rt::{Clock, Files};

/// The frames of a search, where the words say neither frames nor seconds.
const FRAMES: u64 = 60_000;

/// The most frames of a search.
const MOST_FRAMES: u64 = 1_000_000_000;

/// The most seconds of a search: a day.
const MOST_SECONDS: u64 = 86_400;

/// The frames that are played at most to make the keys fewer.
const SHORTENED: u64 = 30_000;

/// The frames in which the first `ld sp, n16` is waited for.
const STACK_FRAMES: u32 = 600;

/// How long a search goes on, and what it comes from.
#[derive(Clone, Copy)]
pub struct HuntTerms {
    pub frames: u64,
    pub seconds: Option<u64>,
    pub seed: u64,
    /// The stack region that the words name.
    pub region: Option<Region>,
    /// Whether it is for events at any timing.
    pub any_timing: bool,
}

/// The number that a word is, in decimal digits.
fn number_in(text: &str, least: u64, most: u64) -> Option<u64> {
    if text.starts_with('+') {
        return None;
    }
    match text.parse::<u64>() {
        Ok(number) if least <= number && number <= most => Some(number),
        _ => None,
    }
}

/// An option's number. Where none is given it is none; the text says what it needs.
fn number_given(
    given: Option<&str>,
    least: u64,
    most: u64,
    text: &'static str,
) -> Result<Option<u64>, &'static str> {
    match given {
        None => Ok(None),
        Some(given) => match number_in(given, least, most) {
            Some(number) => Ok(Some(number)),
            None => Err(text),
        },
    }
}

/// What is wrong with the name of the file that is written, if something is.
fn output_trouble(rom: &str, options: &HuntOptions<'_>) -> Option<&'static str> {
    let name = options.keys.or(options.events)?;
    let is_read = name == rom || options.symbols == Some(name);
    match (is_input(name), is_read, options.keys.is_some()) {
        (true, _, true) => Some("--keys needs the name of a file; for one named -, write ./-"),
        (true, _, false) => Some("--events needs the name of a file; for one named -, write ./-"),
        (_, true, true) => {
            Some("--keys writes OUT, and refuses to overwrite a file that it reads")
        }
        (_, true, false) => {
            Some("--events writes OUT, and refuses to overwrite a file that it reads")
        }
        (false, false, _) => None,
    }
}

/// Which options don't go together, if some don't.
fn mixed_trouble(options: &HuntOptions<'_>) -> Option<&'static str> {
    if !options.any_timing {
        return match options.events {
            Some(_) => Some("--events needs --any-timing; to keep the keys, use --keys"),
            None => None,
        };
    }
    if options.keys.is_some() {
        Some("--keys can't be used with --any-timing: it finds events; to keep them, use --events")
    } else if options.frames.is_some() {
        Some("--frames can't be used with --any-timing: it plays events; use --seconds")
    } else {
        None
    }
}

/// The search that the options ask for, or what is wrong with them.
fn search_of(rom: &str, options: &HuntOptions<'_>) -> Result<HuntTerms, &'static str> {
    let frames = number_given(
        options.frames,
        1,
        MOST_FRAMES,
        "--frames needs a number from 1 to 1000000000",
    )?;
    let seconds = number_given(
        options.seconds,
        1,
        MOST_SECONDS,
        "--seconds needs a number from 1 to 86400",
    )?;
    let seed = number_given(
        options.seed,
        0,
        u64::MAX,
        "--seed needs a number from 0 to 18446744073709551615",
    )?;
    let region = region_given(options.stack)?;
    if let Some(text) = output_trouble(rom, options).or(mixed_trouble(options)) {
        return Err(text);
    }
    let frames = match (frames, seconds) {
        (Some(frames), _) => frames,
        (None, Some(_)) => MOST_FRAMES,
        (None, None) => FRAMES,
    };
    Ok(HuntTerms {
        frames,
        seconds,
        seed: seed.unwrap_or(0),
        region,
        any_timing: options.any_timing,
    })
}

/// Writes a file of what was found. Standard error says why it can't be written.
pub fn write_found<R: Eprint + Files>(rt: &R, name: &str, bytes: &[u8]) -> Result<(), Trouble> {
    match fs::write(rt, name, bytes) {
        Ok(()) => Ok(()),
        Err(error) => {
            tell_written(rt, name, &error);
            Err(Trouble::from(error))
        }
    }
}

/// Says that nothing was found in so many frames or events.
pub fn tell_none<R: Print + Eprint>(rt: &R, name: &str, counted: CountedIn, number: u64) -> Status {
    let mut out = Plain::new(io::writer(rt));
    if put_all(&mut out, no_fault_line(counted, number).as_slice()).is_err() {
        return tell_output(rt, PROGRAM);
    }
    let name = shown_name(name);
    let _ = eprintln!(rt;
        "{PROGRAM}: {name}: found no fault, which proves nothing; certify can prove that a game has none"
    );
    Status::Done
}

/// Says how a script is played again.
fn tell_replay<R: Eprint>(rt: &R, played: &PlayedScript<'_>, keys: Option<&str>) {
    let name = shown_name(played.name);
    let (frames, Region { first, last }) = (played.frames, played.region);
    let Some(keys) = keys else {
        let _ = eprintln!(rt;
            "{PROGRAM}: {name}: to keep the keys, add --keys OUT; the same words find the same fault again"
        );
        return;
    };
    let _ = eprintln!(rt;
        "{PROGRAM}: {name}: play it again: gulmyrek watch {name} {keys} {frames} --stack {first:04X}..{last:04X}"
    );
    let _ = eprintln!(rt;
        "{PROGRAM}: {name}: in another emulator, hold the keys of byte k of {keys} in frame k after power-up"
    );
}

/// A cartridge that is searched, with the names of its files.
#[derive(Clone, Copy)]
pub struct Hunted<'a> {
    pub name: &'a str,
    pub bytes: &'a [u8],
    /// The file that the keys or the events are written to.
    pub output: Option<&'a str>,
    /// Whether a person sees standard error as it comes.
    pub is_shown: bool,
}

/// Says how a search of this region went.
fn hunt_region<R: Print + Eprint + Files + Clock + AllocGlobal>(
    rt: &R,
    hunted: &Hunted<'_>,
    rom: &Rom<'_>,
    search: &HuntTerms,
    region: Region,
    symbols: &Symbols<'_>,
) -> Result<Status, Trouble> {
    let mut progress = HuntShown::new(rt, hunted.is_shown, search.seconds);
    let mut hunt = Hunt::new(rt.alloc(), rom, region, search.seed)?;
    let found = hunt.search(search.frames, &mut progress)?;
    progress.done();
    let Some(script) = found else {
        return Ok(tell_none(rt, hunted.name, CountedIn::Frame, hunt.frames()));
    };
    let mut unhurried = HuntShown::new(rt, false, None);
    let script = shorten(rt.alloc(), rom, region, script, SHORTENED, &mut unhurried)?;
    if let Some(keys) = hunted.output {
        write_found(rt, keys, &script)?;
    }
    let frames = u32::try_from(script.len()).unwrap_or(u32::MAX);
    let played = PlayedScript {
        name: hunted.name,
        rom: hunted.bytes,
        script: &script,
        frames,
        region,
    };
    let status = watch_played(rt, &played, symbols, hunted.is_shown)?;
    if status == Status::Refused {
        tell_replay(rt, &played, hunted.output);
    }
    Ok(status)
}

/// Searches a file's cartridge, if it is one.
fn hunt_file<R: Print + Eprint + Files + Clock + AllocGlobal>(
    rt: &R,
    hunted: &Hunted<'_>,
    search: &HuntTerms,
    symbols: &Symbols<'_>,
) -> Result<Status, Trouble> {
    let Ok(rom) = Rom::parse(hunted.bytes) else {
        // Its fault is told where it is to be played.
        let played = PlayedScript {
            name: hunted.name,
            rom: hunted.bytes,
            script: &[],
            frames: 0,
            region: Region {
                first: 0xC000,
                last: 0xDFFF,
            },
        };
        return watch_played(rt, &played, symbols, hunted.is_shown);
    };
    let stack = match search.region {
        Some(region) => StackChoice::Region(region),
        None => played_stack(rt, hunted.name, &rom, &[], STACK_FRAMES)?,
    };
    match stack {
        StackChoice::Region(region) if search.any_timing => {
            storm_region(rt, hunted, &rom, search, region, symbols)
        }
        StackChoice::Region(region) => hunt_region(rt, hunted, &rom, search, region, symbols),
        StackChoice::Ended(status) => Ok(status),
    }
}

/// The command `hunt`.
pub fn hunt<R: Print + Eprint + Input + Files + Clock + AllocGlobal>(
    rt: &R,
    rom: &str,
    options: &HuntOptions<'_>,
    is_shown: bool,
) -> Result<Status, Trouble> {
    let search = match search_of(rom, options) {
        Ok(search) => search,
        Err(text) => return Ok(tell_words(rt, text)),
    };
    let bytes = read_cartridge(rt, PROGRAM, rom)?;
    let text = read_symbols(rt, PROGRAM, options.symbols)?;
    let symbols = match Symbols::parse(rt.alloc(), &text) {
        Ok(symbols) => symbols,
        Err(fault) => return tell_wrong_symbols(rt, options.symbols, fault),
    };
    let hunted = Hunted {
        name: rom,
        bytes: &bytes,
        output: options.keys.or(options.events),
        is_shown,
    };
    hunt_file(rt, &hunted, &search, &symbols)
}
