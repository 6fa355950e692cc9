//! How far the making of a certificate and a hunt have come, for whoever waits for them, and how long each may take.

use gb_hunt::{HuntProgress, Progress};
use gb_refine::SearchProgress;
use std::rt::Clock;
use std::time::{Duration, Instant};

/// A line on standard error that is written over and over, and wiped at the end.
#[derive(Drop)]
pub struct RoundsShown<'a, R> {
    rt: &'a R,
    is_shown: bool,
    number: u32,
    /// The nodes of all runs so far.
    nodes: u64,
    /// When it began, where there is a clock.
    began: Option<Instant>,
    /// How many seconds it may take.
    seconds: Option<u32>,
}

impl<'a, R: Clock> RoundsShown<'a, R> {
    /// A line that is written only where it is to be shown. The search goes on for so many seconds, or as long as it takes.
    pub fn new(rt: &'a R, is_shown: bool, seconds: Option<u32>) -> RoundsShown<'a, R> {
        RoundsShown {
            rt,
            is_shown,
            number: 0,
            nodes: 0,
            began: Instant::now(rt).ok(),
            seconds,
        }
    }

    /// The time since it began, where there is a clock.
    fn elapsed(&self) -> Option<Duration> {
        self.began?.elapsed(self.rt).ok()
    }

    /// The nodes a second so far, where a millisecond has passed.
    fn rate(&self) -> Option<u64> {
        let milliseconds = u64::try_from(self.elapsed()?.as_millis()).ok()?;
        self.nodes.saturating_mul(1000).checked_div(milliseconds)
    }
}

impl<R: Eprint + Clock> SearchProgress for RoundsShown<'_, R> {
    fn round(&mut self, number: u32) {
        self.number = number;
    }

    fn ran(&mut self, nodes: usize, procedures: usize) {
        self.nodes = self.nodes.saturating_add(nodes as u64);
        if self.is_shown {
            let (number, rate) = (self.number, self.rate().unwrap_or(0));
            let _ = eprint!(self.rt;
                "\rround {number}: nodes {nodes:7}, procedures {procedures:3}, {rate:8} nodes a second"
            );
        }
    }

    fn goes_on(&mut self) -> bool {
        match (self.seconds, self.elapsed()) {
            (Some(seconds), Some(elapsed)) => elapsed.as_secs() < u64::from(seconds),
            _ => true,
        }
    }

    fn shrinks(&mut self) {
        if self.is_shown {
            let _ = eprint!(self.rt; "\r{:70}", "certificate found; trying smaller ones");
        }
    }

    fn done(&mut self) {
        if self.is_shown {
            // The longest of the lines above.
            let _ = eprint!(self.rt; "\r{:70}\r", "");
        }
    }
}

/// The questions of a hunt from one look at the clock to the next.
const LOOK: u32 = 64;

/// A hunt's line on standard error, and its time.
#[derive(Drop)]
pub struct HuntClock<'a, R> {
    rt: &'a R,
    is_shown: bool,
    /// When it began, where there is a clock.
    began: Option<Instant>,
    /// How many seconds it may take.
    seconds: u32,
    asked: u32,
    /// Whether a crash was found, whose keys are made fewer.
    is_found: bool,
}

impl<'a, R: Clock> HuntClock<'a, R> {
    /// A hunt of so many seconds, which begins now. Without a clock it has no time.
    pub fn new(rt: &'a R, is_shown: bool, seconds: u32) -> HuntClock<'a, R> {
        HuntClock {
            rt,
            is_shown,
            began: Instant::now(rt).ok(),
            seconds,
            asked: 0,
            is_found: false,
        }
    }

    /// A crash was found, and its keys are made fewer.
    pub fn found(&mut self) {
        self.is_found = true;
    }

    /// The seconds that passed, where there is a clock.
    fn passed(&self) -> Option<u64> {
        Some(self.began?.elapsed(self.rt).ok()?.as_secs())
    }
}

impl<R: Eprint + Clock> HuntClock<'_, R> {
    /// Says how far it is.
    fn tell(&self, frames: u64, passed: u64) {
        if !self.is_shown {
            return;
        }
        let seconds = self.seconds;
        let _ = if self.is_found {
            eprint!(self.rt; "\r{:70}", "crash found; making its keys fewer")
        } else {
            eprint!(self.rt;
                "\rhunting for a crash: {frames:8} frames, {passed} of {seconds} seconds"
            )
        };
    }

    /// Wipes the line.
    pub fn done(&self) {
        if self.is_shown {
            let _ = eprint!(self.rt; "\r{:70}\r", "");
        }
    }
}

/// The frames of a crash that is played again from one message to the next.
const STEP: u32 = 100;

impl<R: Eprint> Progress for HuntClock<'_, R> {
    fn frame(&mut self, number: u32, frames: u32) {
        if self.is_shown && number % STEP == 0 {
            let _ = eprint!(self.rt; "\rplaying the crash again: frame {number:8} of {frames:8}");
        }
    }

    fn done(&mut self) {}
}

impl<R: Eprint + Clock> HuntProgress for HuntClock<'_, R> {
    fn goes_on(&mut self, frames: u64) -> bool {
        self.asked = self.asked.wrapping_add(1);
        // While keys are made fewer, whole scripts are played from one question to the next.
        if !self.is_found && self.asked % LOOK != 1 {
            return true;
        }
        let Some(passed) = self.passed() else {
            return false;
        };
        self.tell(frames, passed);
        passed < u64::from(self.seconds)
    }
}
