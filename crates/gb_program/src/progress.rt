//! How far a run or a search has come, for whoever waits for it, and how long a search may take.

use gb_events::{HuntProgress, Patience, Progress};
use std::rt::Clock;
use std::time::{Duration, Instant};

/// The frames from one message to the next.
const STEP: u32 = 100;

/// The questions of a search from one look at the clock to the next.
const LOOK: u32 = 64;

/// A line on standard error that is written over and over, and wiped at the end.
#[derive(Drop)]
pub struct FramesShown<'a, R> {
    rt: &'a R,
    is_shown: bool,
}

impl<'a, R> FramesShown<'a, R> {
    /// A line that is written only where it is to be shown.
    pub fn new(rt: &'a R, is_shown: bool) -> FramesShown<'a, R> {
        FramesShown { rt, is_shown }
    }
}

impl<R: Eprint> Progress for FramesShown<'_, R> {
    fn frame(&mut self, number: u32, frames: u32) {
        if self.is_shown && number % STEP == 0 {
            let _ = eprint!(self.rt; "\rframe {number} of {frames}");
        }
    }

    fn done(&mut self) {
        if self.is_shown {
            // Two numbers of ten digits and the words between them.
            let _ = eprint!(self.rt; "\r{:30}\r", "");
        }
    }
}

/// A search's line on standard error, and its time.
#[derive(Drop)]
pub struct HuntShown<'a, R> {
    rt: &'a R,
    is_shown: bool,
    /// When it began, where there is a clock.
    began: Option<Instant>,
    /// How many seconds it may take.
    seconds: Option<u64>,
    asked: u32,
}

impl<'a, R: Clock> HuntShown<'a, R> {
    /// A line that is written only where it is to be shown. The search goes on for so many seconds, or as long as it takes.
    pub fn new(rt: &'a R, is_shown: bool, seconds: Option<u64>) -> HuntShown<'a, R> {
        HuntShown {
            rt,
            is_shown,
            began: Instant::now(rt).ok(),
            seconds,
            asked: 0,
        }
    }

    /// The time since it began, where there is a clock.
    fn elapsed(&self) -> Option<Duration> {
        self.began?.elapsed(self.rt).ok()
    }

    /// Whether there is time left; without a clock there is none.
    fn has_time(&self) -> bool {
        match (self.seconds, self.elapsed()) {
            (None, _) => true,
            (Some(seconds), Some(elapsed)) => elapsed.as_secs() < seconds,
            (Some(_), None) => false,
        }
    }

    /// How many it played a second so far, where a millisecond has passed.
    fn rate(&self, played: u64) -> Option<u64> {
        let milliseconds = u64::try_from(self.elapsed()?.as_millis()).ok()?;
        played.saturating_mul(1000).checked_div(milliseconds)
    }
}

impl<R: Eprint + Clock> HuntShown<'_, R> {
    /// Wipes the line.
    pub fn done(&self) {
        if self.is_shown {
            // Two numbers and the words between them.
            let _ = eprint!(self.rt; "\r{:50}\r", "");
        }
    }
}

impl<R: Eprint + Clock> HuntShown<'_, R> {
    /// Whether the search goes on; it has played so many of what is named.
    fn look(&mut self, played: u64, named: &str) -> bool {
        self.asked = self.asked.wrapping_add(1);
        if self.asked % LOOK != 1 {
            return true;
        }
        if self.is_shown {
            let rate = self.rate(played).unwrap_or(0);
            let _ = eprint!(self.rt; "\r{played:10} {named}, {rate:6} {named} a second");
        }
        self.has_time()
    }
}

impl<R: Eprint + Clock> HuntProgress for HuntShown<'_, R> {
    fn goes_on(&mut self, frames: u64) -> bool {
        self.look(frames, "frames")
    }
}

impl<R: Eprint + Clock> Patience for HuntShown<'_, R> {
    fn lasts(&mut self, events: u64) -> bool {
        self.look(events, "events")
    }
}
