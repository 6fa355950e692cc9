//! A run played again, up to its fault.

use crate::calls::OpenCalls;
use crate::recent::{HardwareBytes, Recent, TraceStep};
use gb_ops::machine::CodePlace;
use gb_witness::{Console, FRAME_CYCLES, Keys, Progress, Stepped, keys_at, place_now, seconds_of};
use std::alloc::{AllocError, Global};

/// The last frames that are looked at instruction by instruction, a minute: those before them are played several times as fast.
const RECORDED: u32 = 3600;

/// What is kept of a run: its last instructions, and the calls that are open.
#[derive(Drop)]
pub struct Recorder {
    pub(crate) recent: Recent,
    pub(crate) calls: OpenCalls,
    /// The frame from which on it was looked at.
    pub(crate) first: u32,
}

/// A moment of a run: an event of a frame, both counted from 0.
#[derive(Clone, Copy)]
pub struct Moment {
    pub frame: u32,
    pub event: u16,
}

impl Recorder {
    /// Nothing yet.
    pub fn none(alloc: Global) -> Recorder {
        Recorder {
            recent: Recent::none(),
            calls: OpenCalls::none(alloc),
            first: 0,
        }
    }

    /// Takes an event in: it was at `from`, hardware gave it these bytes, and it left PC at `place` and SP at `sp`.
    ///
    /// # Errors
    ///
    /// AllocError where memory ran out.
    pub fn take(
        &mut self,
        from: CodePlace,
        stepped: &Stepped,
        given: HardwareBytes,
        place: CodePlace,
        sp: u16,
    ) -> Result<(), AllocError> {
        match TraceStep::of(from, stepped, given) {
            Some(step) => {
                self.recent.push(step);
                self.calls.take(from, stepped, place, sp)
            }
            None => Ok(()),
        }
    }

    /// Plays one event, and answers whether it ended the frame.
    fn step(
        &mut self,
        console: &mut Console<'_>,
        keys: Keys,
        seconds: u32,
    ) -> Result<bool, AllocError> {
        let from: CodePlace = place_now(console);
        let before = console.cycles();
        let stepped = console.advance(keys, seconds);
        let sp = console.processor().sp;
        self.take(
            from,
            &stepped,
            HardwareBytes::Nothing,
            place_now(console),
            sp,
        )?;
        let is_passed = before + u16::from(stepped.cycles) >= FRAME_CYCLES;
        Ok(console.ending(is_passed).is_some())
    }

    /// Plays the events of a frame, up to the one with this number or to the frame's end.
    fn frame(
        &mut self,
        console: &mut Console<'_>,
        keys: Keys,
        seconds: u32,
        events: u16,
    ) -> Result<(), AllocError> {
        let mut passed = seconds;
        for _ in 0..events {
            if self.step(console, keys, passed)? {
                return Ok(());
            }
            passed = 0;
        }
        Ok(())
    }

    /// Plays a script up to an event, which is next then.
    ///
    /// # Errors
    ///
    /// AllocError where memory ran out.
    pub fn play<P: Progress>(
        &mut self,
        console: &mut Console<'_>,
        script: &[u8],
        moment: Moment,
        progress: &mut P,
    ) -> Result<(), AllocError> {
        self.first = moment.frame.saturating_sub(RECORDED);
        for number in 0..moment.frame {
            progress.frame(number, moment.frame);
            let keys = keys_at(script, number);
            let seconds = seconds_of(number);
            if number < self.first {
                console.frame(keys, seconds);
            } else {
                // A step takes at least an M-cycle, or it ends the frame.
                self.frame(console, keys, seconds, FRAME_CYCLES)?;
            }
        }
        let keys = keys_at(script, moment.frame);
        let played = self.frame(console, keys, seconds_of(moment.frame), moment.event);
        progress.done();
        played
    }
}
