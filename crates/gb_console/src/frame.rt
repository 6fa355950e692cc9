//! Frames.

ghost use Rattle.std.specs.Prelude.{◌≡◌, ◌+◌, ◌<◌, nat_le, true, false};
ghost use Rattle.gb_cpu.specs.Choice.{is_idle};
ghost use Rattle.gb_console.specs.Console.{rom_of};
ghost use Rattle.gb_console.specs.Frame.{HasGone, IsFrame, IsFrameStep, ending_by, idle_ending};
ghost use Rattle.gb_cpu.specs.Below.gb_ppu.Picture.{frame_cycles};
ghost use Rattle.gb_console.specs.Verified.{IsVerified};
ghost use Rattle.gb_console.specs.declared.frame.Ending.TheVariants as ending;

use crate::console::Console;
use gb_cpu::{FRAME_CYCLES, Keys};

/// How a frame ended.
#[derive(Clone, Copy, Debug, PartialEq, Eq)]
pub enum Ending {
    /// The M-cycles since power-up reached or passed a multiple of 17,556.
    Whole,
    /// An undefined opcode locked the console.
    Locked,
    /// STOP stopped the console.
    Stopped,
}

impl Console<'_> {
    /// A step, and how it ended the frame, if it did.
    #[tactic(auto, unfolding(crate::specs::Frame::ending_after))]
    fn frame_step(&mut self, keys: Keys, seconds: u32) -> Option<Ending>
        ensures step { IsFrameStep self.old keys seconds result self.new }
        ensures unchanged { is_idle self.old.cpu ≡ true → self.new ≡ self.old }
    {
        let before = self.cycles();
        let stepped = self.advance(keys, seconds);
        self.ending(before + u16::from(stepped.cycles) >= FRAME_CYCLES)
    }

    /// How a step ended the frame, if it did, by whether it reached or passed its end.
    pub fn ending(&self, is_passed: bool) -> Option<Ending>
        ensures { result ≡ ending_by self.now.cpu.processor.locked self.now.cpu.processor.stopped is_passed }
    {
        let processor = self.processor();
        if processor.locked {
            return Some(Ending::Locked);
        }
        if processor.stopped {
            return Some(Ending::Stopped);
        }
        if is_passed {
            return Some(Ending::Whole);
        }
        None
    }

    /// How a step ended the frame, if it did. It asks less if it is known that the console is neither locked nor stopped.
    #[inline(always)]
    #[tactic(auto, using(crate::proofs::Going::not_locked))]
    pub fn ending_unless(&self, goes: bool, is_passed: bool) -> Option<Ending>
        requires { goes ≡ true → is_idle self.now.cpu ≡ false }
        ensures { result ≡ ending_by self.now.cpu.processor.locked self.now.cpu.processor.stopped is_passed }
    {
        if goes && !is_passed {
            return None;
        }
        self.ending(is_passed)
    }

    /// Instructions, while one comes next with nothing else and the frame isn't ended; then a processor that waits waits for
    /// a change. Answers how the frame ended, if it did.
    #[tactic(auto, unfolding(crate::specs::Frame::ending_after))]
    fn go_on(&mut self, keys: Keys) -> Option<Ending>
        requires { is_idle self.old.cpu ≡ false }
        ensures { HasGone self.old keys result self.new }
    {
        let mut goes = self.is_ready(keys);
        while goes {
            let is_passed = self.run(keys);
            goes = self.is_ready(keys);
            match self.ending_unless(goes, is_passed) {
                Some(ending) => return Some(ending),
                None => {}
            }
        }
        self.wait(keys);
        None
    }

    /// The steps of a frame.
    fn run_frame(&mut self, keys: Keys, seconds: u32) -> Ending
        ensures frame { IsFrame self.old keys seconds result self.new }
        ensures unchanged { is_idle self.old.cpu ≡ true → self.new ≡ self.old }
    {
        let mut passed = seconds;
        loop {
            match self.frame_step(keys, passed) {
                Some(ending) => return ending,
                None => passed = 0,
            }
            match self.go_on(keys) {
                Some(ending) => return ending,
                None => {}
            }
        }
    }

    /// Steps, the first with the seconds that passed and later ones with none, until the M-cycles
    /// since power-up reach or pass the next multiple of 17,556, or the console is locked or
    /// stopped, which win. A console that is locked or stopped already stays as it is. Where some
    /// certificate is right for the cartridge, every frame is whole, with any keys and seconds.
    pub fn frame(&mut self, keys: Keys, seconds: u32) -> Ending
        ensures frame { IsFrame self.old keys seconds result self.new }
        ensures idle { is_idle self.old.cpu ≡ true → result ≡ idle_ending self.old.cpu.processor.locked }
        ensures unchanged { is_idle self.old.cpu ≡ true → self.new ≡ self.old }
        ensures verified { IsVerified (rom_of self.old) → result ≡ ending.Whole }
    {
        let ending = self.run_frame(keys, seconds);
        // Behind the last promise stand that the cartridge is one, and that each state is reached.
        self.holds_cartridge();
        self.reached();
        ending
    }
}
