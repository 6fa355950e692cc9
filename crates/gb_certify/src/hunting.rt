//! Where no certificate is made: the hunt for keys that crash the game.

use crate::crash::{FoundCrash, number_of};
use crate::messages::PROGRAM;
use crate::progress::HuntClock;
use crate::words::CertifyTask;
use gb_command_line::{Rom, Trouble, shown_name};
use gb_hunt::{Console, FoundStack, Hunt, find_stack, shorten};
use gb_ops::machine::{CodePlace, Region};
use gb_page::{CrashFinding, Finding, Symbols};
use std::alloc::{AllocError, Global};
use std::rt::{Clock, Files};

/// The seconds of a hunt on a terminal, where nothing is said.
const SECONDS: u32 = 10;

/// The most frames of a hunt, which its time ends much sooner.
const FRAMES: u64 = 1_000_000_000;

/// The frames that are played at most to make the keys fewer.
const SHORTENED: u64 = 30_000;

/// The frames in which the first `ld sp, n16` is waited for, as `gulmyrek hunt` does.
const STACK_FRAMES: u32 = 600;

/// What the keys of a hunt come from: each hunt of a cartridge tries the same ones.
const SEED: u64 = 0;

/// How a hunt ended.
#[derive(Drop)]
pub enum HuntEnd<'r> {
    /// There was none.
    None,
    /// There is no RAM below this address for a stack.
    NoStack(u16),
    /// No crash was found in so many frames.
    Nothing(u64),
    /// Keys were found.
    Found(FoundCrash<'r>),
}

/// Why there is no certificate.
#[derive(Drop)]
pub struct NoCertificate<'r> {
    /// The findings, that at the place of a crash first.
    pub findings: Vec<Finding>,
    pub hunt: HuntEnd<'r>,
    /// What failed in the hunt, if something did.
    pub trouble: Option<Trouble>,
}

/// The seconds of a hunt; 0 for none.
pub fn hunt_seconds(task: &CertifyTask<'_>, is_shown: bool) -> u32 {
    match task.hunt {
        Some(seconds) => seconds,
        None if is_shown => SECONDS,
        None => 0,
    }
}

/// An address with its bank, where that is known; RAM has none.
fn known_place(address: u16, bank: Option<u16>) -> Option<CodePlace> {
    let bank = if address < 0x8000 { bank? } else { 0 };
    Some(CodePlace { address, bank })
}

/// The place of a finding, if it is at one.
fn place_of(finding: &Finding) -> Option<CodePlace> {
    match finding {
        Finding::Instruction(finding) => known_place(finding.address, finding.bank),
        Finding::Recursion { target } => known_place(target.address, target.bank),
        _ => None,
    }
}

/// The stack region: the one that the words name, or the one that `gulmyrek watch` finds. That of a search which found no certificate
/// is mostly too small: it reaches only as far down as was needed up to there.
fn stack_of(
    alloc: Global,
    task: &CertifyTask<'_>,
    rom: &Rom<'_>,
) -> Result<FoundStack, AllocError> {
    if let Some(region) = task.region {
        return Ok(FoundStack::Below(region));
    }
    let mut console = Console::new(alloc, rom)?;
    Ok(find_stack(&mut console, &[], STACK_FRAMES))
}

/// Hunts for keys that crash the cartridge with this stack region, towards these places.
fn hunt_region<'r, R: Eprint + Clock + AllocGlobal>(
    rt: &R,
    rom: &Rom<'r>,
    region: Region,
    places: &[Option<CodePlace>],
    symbols: &Symbols<'_>,
    progress: &mut HuntClock<'_, R>,
) -> Result<HuntEnd<'r>, AllocError> {
    let mut hunt = Hunt::new(rt.alloc(), rom, region, SEED)?;
    for place in places.iter().flatten() {
        hunt.want(*place);
    }
    let found = hunt.search(FRAMES, progress)?;
    let Some(script) = found else {
        return Ok(HuntEnd::Nothing(hunt.frames()));
    };
    progress.found();
    let script = shorten(rt.alloc(), rom, region, script, SHORTENED, progress)?;
    match FoundCrash::of(rt.alloc(), rom, script, region, symbols, progress)? {
        Some(crash) => Ok(HuntEnd::Found(crash)),
        None => Ok(HuntEnd::Nothing(hunt.frames())),
    }
}

/// Hunts for so many seconds.
fn hunt<'r, R: Eprint + Clock + AllocGlobal>(
    rt: &R,
    task: &CertifyTask<'_>,
    rom: &Rom<'r>,
    places: &[Option<CodePlace>],
    symbols: &Symbols<'_>,
    seconds: u32,
    is_shown: bool,
) -> Result<HuntEnd<'r>, AllocError> {
    let region = match stack_of(rt.alloc(), task, rom)? {
        FoundStack::Below(region) => region,
        FoundStack::NotRam(sp) => return Ok(HuntEnd::NoStack(sp)),
    };
    let mut progress = HuntClock::new(rt, is_shown, seconds);
    let ended = hunt_region(rt, rom, region, places, symbols, &mut progress);
    progress.done();
    ended
}

/// The places of findings, in their order.
fn places_of(alloc: Global, findings: &[Finding]) -> Result<Vec<Option<CodePlace>>, AllocError> {
    let mut places = Vec::new(alloc);
    for finding in findings {
        places.push(place_of(finding))?;
    }
    Ok(places)
}

/// The findings with one of them first.
fn with_first(findings: &mut Vec<Finding>, number: usize) -> Result<(), AllocError> {
    if number < findings.len() {
        let first = findings.remove(number);
        findings.insert(0, first)?;
    }
    Ok(())
}

impl<'r> NoCertificate<'r> {
    /// The findings, and after a hunt what it came to; the keys of a crash are written.
    pub fn of<R: Eprint + Files + Clock + AllocGlobal>(
        rt: &R,
        task: &CertifyTask<'_>,
        rom: &Rom<'r>,
        findings: Vec<Finding>,
        symbols: &Symbols<'_>,
        is_shown: bool,
    ) -> NoCertificate<'r> {
        let mut ended = NoCertificate {
            findings,
            hunt: HuntEnd::None,
            trouble: None,
        };
        let seconds = hunt_seconds(task, is_shown);
        if seconds != 0
            && let Err(trouble) = ended.hunt(rt, task, rom, symbols, seconds, is_shown)
        {
            ended.trouble = Some(trouble);
        }
        ended
    }

    /// Hunts, puts the finding at a crash's place first, and writes the crash's keys.
    fn hunt<R: Eprint + Files + Clock + AllocGlobal>(
        &mut self,
        rt: &R,
        task: &CertifyTask<'_>,
        rom: &Rom<'r>,
        symbols: &Symbols<'_>,
        seconds: u32,
        is_shown: bool,
    ) -> Result<(), Trouble> {
        let places = places_of(rt.alloc(), &self.findings)?;
        self.hunt = hunt(rt, task, rom, &places, symbols, seconds, is_shown)?;
        if let HuntEnd::Found(crash) = &mut self.hunt {
            if let Some(number) = number_of(&places, crash.place()) {
                with_first(&mut self.findings, number)?;
                crash.finding = CrashFinding::First;
            } else if let Some(number) = crash.last_before(rt.alloc(), rom, &places)? {
                let number = u32::try_from(number).unwrap_or(u32::MAX);
                crash.finding = CrashFinding::Before(number.saturating_add(1));
            }
            crash.write_keys(rt, task.cert)?;
        }
        Ok(())
    }

    /// The crash, if one was found.
    pub fn crash(&self) -> Option<&FoundCrash<'r>> {
        match &self.hunt {
            HuntEnd::Found(crash) => Some(crash),
            HuntEnd::None | HuntEnd::NoStack(_) | HuntEnd::Nothing(_) => None,
        }
    }

    /// Says that a hunt found nothing.
    pub fn tell_nothing<R: Eprint>(&self, rt: &R, task: &CertifyTask<'_>) {
        let name = shown_name(task.rom);
        let _ = match &self.hunt {
            HuntEnd::None | HuntEnd::Found(_) => return,
            HuntEnd::NoStack(sp) => {
                let sp = *sp;
                eprintln!(rt;
                    "{PROGRAM}: {name}: no hunt for a crash: `ld sp, ${sp:04X}` leaves no WRAM or HRAM below SP; name the stack with --stack"
                )
            }
            HuntEnd::Nothing(frames) => {
                let frames = *frames;
                eprintln!(rt;
                    "{PROGRAM}: {name}: the hunt found no crash in {frames} frames, which proves nothing"
                )
            }
        };
    }
}
