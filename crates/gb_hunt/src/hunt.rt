//! The search.

use crate::explore::{Explored, explore_frame};
use crate::leads::{Lead, Leads};
use crate::play::{keys_of, seconds_of};
use crate::presses::Presses;
use crate::seen::Seen;
use bitflags::Flags;
use gb_ops::machine::{CodePlace, Region};
use gb_trace::{Console, Keys, Rom};
use std::alloc::{AllocError, Global};

/// The frames of a short burst.
const BURST: u64 = 64;

/// The frames that a script has at most: ten minutes.
const LONGEST: usize = 36_000;

/// How often a round is tried that leaves something on the stack.
const ROUNDS: u32 = 24;

/// The frames of such a round at most.
const ROUND: usize = 900;

/// The frames from one look at the picture to the next.
const LOOK: usize = 4;

/// Whoever waits for the search.
pub trait HuntProgress {
    /// Whether the search goes on. It is asked after each few frames, and hears how many there were.
    fn goes_on(&mut self, frames: u64) -> bool;
}

/// A search of a cartridge.
#[derive(Drop)]
pub struct Hunt<'a> {
    alloc: Global,
    region: Region,
    seen: Seen,
    leads: Leads<'a>,
    presses: Presses,
    frames: u64,
    bursts: u64,
    /// The least stack pointer at a frame's end.
    least_sp: u16,
    /// The console where the stack grew further than ever before, last.
    longest: Option<Lead<'a>>,
    /// How often rounds between two of those may still be tried.
    rounds: u32,
}

/// What rounds do to the stack.
#[derive(Drop)]
enum StackRounds {
    /// Each leaves something on it.
    Grow,
    /// One leaves nothing, or the console does nothing any more.
    Even,
    /// A fault came in the last frame of this script.
    Found(Vec<u8>),
}

/// The keys without so many of them from one on.
fn without(alloc: Global, keys: &[u8], from: usize, count: usize) -> Result<Vec<u8>, AllocError> {
    let to = from.saturating_add(count);
    let mut rest = Vec::new(alloc);
    for (number, byte) in keys.iter().enumerate() {
        if number < from || to <= number {
            rest.push(*byte)?;
        }
    }
    Ok(rest)
}

/// How a burst ended.
#[derive(Drop)]
enum Burst {
    /// All its frames passed, or the console does nothing any more.
    Done,
    /// A fault came in the last frame of this script.
    Found(Vec<u8>),
    /// Time is out.
    Halted,
}

impl<'a> Hunt<'a> {
    /// A search from power-up, whose keys the seed determines.
    ///
    /// # Errors
    ///
    /// AllocError where there is no room.
    pub fn new(
        alloc: Global,
        rom: &Rom<'a>,
        region: Region,
        seed: u64,
    ) -> Result<Hunt<'a>, AllocError> {
        let seen = Seen::new(alloc, rom.bytes().len())?;
        let first = Lead {
            console: Console::new(alloc, rom)?,
            script: Vec::new(alloc),
        };
        let leads = Leads::new(alloc, first)?;
        Ok(Hunt {
            alloc,
            region,
            seen,
            leads,
            presses: Presses::new(seed),
            frames: 0,
            bursts: 0,
            least_sp: 0xFFFF,
            longest: None,
            rounds: ROUNDS,
        })
    }

    /// The search goes towards this place: where code runs there, it goes on from there, as from code that hasn't run before.
    pub fn want(&mut self, place: CodePlace) {
        self.seen.want(place.bank, place.address);
    }

    /// The frames that were played.
    pub fn frames(&self) -> u64 {
        self.frames
    }

    /// The places at which instructions began.
    pub fn places(&self) -> usize {
        self.seen.places()
    }

    /// The consoles that are kept.
    pub fn leads(&self) -> usize {
        self.leads.len()
    }

    /// The number of the lead that a burst begins with: mostly one of the newest.
    fn choose(&mut self) -> usize {
        let count = self.leads.len() as u64;
        let back = match self.presses.below(4) {
            0 => self.presses.below(count),
            1 => self.presses.below(count.min(24)),
            _ => self.presses.below(count.min(4)),
        };
        count.saturating_sub(1).saturating_sub(back) as usize
    }

    /// The frames of the next burst: half of the bursts are short, and each length comes half as often as the one before.
    fn length(&mut self) -> u64 {
        self.bursts = self.bursts.wrapping_add(1);
        let doublings = self.bursts.trailing_zeros().min(6);
        BURST << doublings
    }

    /// Whether something new was seen; `number` counts the frames of the script.
    fn is_new(&mut self, console: &Console<'_>, number: usize) -> bool {
        let is_fresh = self.seen.take_fresh();
        let is_look = number % LOOK == 0;
        (is_look && self.seen.look(console.screen())) || is_fresh
    }

    /// The keys of the next frame: the player's, or those of so many frames before, again.
    fn next_keys(&mut self, script: &[u8], again: usize) -> u8 {
        match script.len().checked_sub(again) {
            Some(at) if again != 0 => script.get(at).copied().unwrap_or(0),
            _ => self.presses.next(),
        }
    }

    /// Whether the stack is longer than at any frame's end before.
    fn is_stack_longer(&mut self, console: &Console<'_>) -> bool {
        let sp = console.processor().sp;
        let is_longer = sp < self.least_sp && self.region.first <= sp;
        if is_longer {
            self.least_sp = sp;
        }
        is_longer
    }

    /// One frame of a burst. Where it leads to something new, its console is kept.
    fn frame(&mut self, lead: &mut Lead<'a>, again: usize) -> Result<Explored, AllocError> {
        let number = lead.script.len();
        let keys = self.next_keys(&lead.script, again);
        let explored = self.plain_frame(lead, keys)?;
        if explored == Explored::Whole && self.is_new(&lead.console, number) {
            self.keep(lead)?;
        }
        Ok(explored)
    }

    /// Keeps a copy of a lead.
    fn keep(&mut self, lead: &Lead<'a>) -> Result<(), AllocError> {
        let copy = lead.try_clone(self.alloc)?;
        let older = self.presses.below(self.leads.len() as u64) as usize;
        self.leads.keep(copy, older)
    }

    /// One frame with these keys, without any look at what is new. Answers how it ended.
    fn plain_frame(&mut self, lead: &mut Lead<'a>, keys: u8) -> Result<Explored, AllocError> {
        let number = lead.script.len();
        lead.script.push(keys)?;
        self.frames = self.frames.wrapping_add(1);
        Ok(explore_frame(
            &mut lead.console,
            keys_of(keys),
            seconds_of(number),
            self.region,
            &mut self.seen,
        ))
    }

    /// Plays a round of keys again and again, while each leaves something on the stack, at most so often.
    fn play_rounds<P: HuntProgress>(
        &mut self,
        from: &Lead<'a>,
        round: &[u8],
        most: usize,
        progress: &mut P,
    ) -> Result<StackRounds, AllocError> {
        let mut lead = from.try_clone(self.alloc)?;
        for _ in 0..most {
            let before = lead.console.processor().sp;
            for keys in round {
                if lead.script.len() >= LONGEST || !progress.goes_on(self.frames) {
                    return Ok(StackRounds::Even);
                }
                match self.plain_frame(&mut lead, *keys)? {
                    Explored::Whole => {}
                    Explored::Still => return Ok(StackRounds::Even),
                    Explored::Faulted => return Ok(StackRounds::Found(lead.script)),
                }
            }
            if lead.console.processor().sp >= before {
                return Ok(StackRounds::Even);
            }
        }
        Ok(StackRounds::Grow)
    }

    /// A shorter round that leaves something on the stack twice in a row.
    fn shorter_round<P: HuntProgress>(
        &mut self,
        from: &Lead<'a>,
        mut round: Vec<u8>,
        progress: &mut P,
    ) -> Result<Vec<u8>, AllocError> {
        let mut count = round.len() / 2;
        for _ in 0..10 {
            let mut at = 0usize;
            for _ in 0..ROUND {
                if at >= round.len() || count == 0 {
                    break;
                }
                let shorter = without(self.alloc, &round, at, count)?;
                match self.play_rounds(from, &shorter, 2, progress)? {
                    StackRounds::Grow => round = shorter,
                    StackRounds::Even | StackRounds::Found(_) => at = at.saturating_add(count),
                }
            }
            count /= 2;
        }
        Ok(round)
    }

    /// Tries whether what led from one record of the stack to the next leaves something on it each time.
    fn try_round<P: HuntProgress>(
        &mut self,
        from: &Lead<'a>,
        to: &Lead<'a>,
        progress: &mut P,
    ) -> Result<Option<Vec<u8>>, AllocError> {
        let start = from.script.len();
        let Some(keys) = to.script.get(start..) else {
            return Ok(None);
        };
        if keys.is_empty() || keys.len() > ROUND {
            return Ok(None);
        }
        self.rounds = self.rounds.saturating_sub(1);
        let round = Vec::from_slice(self.alloc, keys)?;
        match self.play_rounds(from, &round, 3, progress)? {
            StackRounds::Even => return Ok(None),
            StackRounds::Found(script) => return Ok(Some(script)),
            StackRounds::Grow => {}
        }
        let round = self.shorter_round(from, round, progress)?;
        match self.play_rounds(from, &round, LONGEST, progress)? {
            StackRounds::Found(script) => Ok(Some(script)),
            StackRounds::Even | StackRounds::Grow => Ok(None),
        }
    }

    /// A console where the stack is longer than ever before: tries the round that led here from the last such console.
    fn grown<P: HuntProgress>(
        &mut self,
        lead: &Lead<'a>,
        progress: &mut P,
    ) -> Result<Option<Vec<u8>>, AllocError> {
        let copy = lead.try_clone(self.alloc)?;
        let last = self.longest.replace(copy);
        match last {
            Some(from) if self.rounds != 0 => self.try_round(&from, lead, progress),
            _ => Ok(None),
        }
    }

    /// Frames from a lead on, at most so many; where `again` isn't 0 the keys are those of so many frames before.
    fn burst<P: HuntProgress>(
        &mut self,
        mut lead: Lead<'a>,
        length: u64,
        again: usize,
        progress: &mut P,
    ) -> Result<Burst, AllocError> {
        self.presses.begin();
        for _ in 0..length {
            if lead.script.len() >= LONGEST {
                return Ok(Burst::Done);
            }
            if !progress.goes_on(self.frames) {
                return Ok(Burst::Halted);
            }
            match self.frame(&mut lead, again)? {
                Explored::Whole => {}
                Explored::Still => return Ok(Burst::Done),
                Explored::Faulted => return Ok(Burst::Found(lead.script)),
            }
            if self.is_stack_longer(&lead.console) {
                self.keep(&lead)?;
                if let Some(script) = self.grown(&lead, progress)? {
                    return Ok(Burst::Found(script));
                }
            }
        }
        Ok(Burst::Done)
    }

    /// How many frames back the keys of a burst come from: mostly 0, so that they are new.
    fn again(&mut self, length: u64) -> usize {
        if length <= BURST || self.presses.below(4) != 0 {
            return 0;
        }
        (self.presses.below(120) as usize).saturating_add(8)
    }

    /// Plays at most so many frames, while the progress goes on. Answers the keys up to the frame of the first fault that it finds.
    ///
    /// # Errors
    ///
    /// AllocError where there is no room.
    pub fn search<P: HuntProgress>(
        &mut self,
        frames: u64,
        progress: &mut P,
    ) -> Result<Option<Vec<u8>>, AllocError> {
        for _ in 0..frames {
            if self.frames >= frames {
                break;
            }
            let number = self.choose();
            let length = self.length().min(frames.saturating_sub(self.frames));
            let again = self.again(length);
            let Some(lead) = self.leads.copy_of(self.alloc, number)? else {
                break;
            };
            match self.burst(lead, length, again, progress)? {
                Burst::Done => {}
                Burst::Found(script) => return Ok(Some(script)),
                Burst::Halted => break,
            }
        }
        Ok(None)
    }
}
