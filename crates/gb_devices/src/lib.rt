//! The devices that count M-cycles by themselves: the timer and the picture (`specs/Devices.antt`).
//!
//! They see M-cycles pass as one of them comes to a change, or as they are asked for. Until then the M-cycles
//! are owed, and contracts see both as they are with those passed. The key contracts are `owe` and `wait`: M-cycles pass
//! only where nothing is requested and no line is drawn in them. `settle` lets them be seen where someone asks for the picture
//! again and again, and changes nothing that contracts see.
#![tactic(auto)]

ghost use Rattle.std.specs.Prelude.{◌≡◌, ◌≤◌, true, false};
ghost use Rattle.gb_ppu.specs.Below.gb_timer.Timer.{at_power_up};
ghost use Rattle.gb_ppu.specs.PowerUp.{power_up};
ghost use Rattle.gb_devices.specs.Devices.{IsStill, after};

use gb_ppu::Timer;
use gb_ppu::ppu::Ppu;
use std::marker::Model;

/// The timer and the picture, and the M-cycles that they have not seen.
#[derive(Drop)]
pub struct Devices {
    timer: Timer,
    ppu: Ppu,
    /// M-cycles that passed since `timer` and `ppu` were as they stand here.
    owed: u8,
    /// M-cycles from there on in which nothing is requested and no line is drawn.
    quiet: u8,
}

impl Model for Devices {
    ghost use Rattle.std.specs.Prelude.{◌≤◌};
    ghost use Rattle.gb_devices.specs.Devices.{DeviceState, IsStill, after};

    ghost Value = { DeviceState };

    ghost view = { λ d. after (record { timer = d.timer; picture = d.ppu }) d.owed };

    ghost invariant = { λ d. (d.owed ≤ d.quiet) × IsStill (record { timer = d.timer; picture = d.ppu }) d.quiet };
}

/// The smaller one, where it fits a byte, and else 255.
fn least(a: u16, b: u16) -> u8
    ensures first { result ≤ a }
    ensures second { result ≤ b }
{
    let least = if a < b { a } else { b };
    if least < 255 { least as u8 } else { 255 }
}

/// M-cycles in which nothing is requested and no line is drawn; more may be such.
fn quiet_of(timer: &Timer, ppu: &Ppu) -> u8
    ensures { IsStill (record { timer = timer.now; picture = ppu.now }) result }
{
    least(timer.quiet(), ppu.silent())
}

impl Devices {
    /// Devices like these, for a second console.
    pub fn copied(&self) -> Devices
        ensures { result ≡ self.now }
    {
        Devices {
            timer: self.timer,
            ppu: self.ppu,
            owed: self.owed,
            quiet: self.quiet,
        }
    }

    /// A timer and a picture.
    #[tactic(auto, using(crate::proofs::Stillness::after_none))]
    pub fn of(timer: Timer, ppu: Ppu) -> Devices
        ensures { result ≡ record { timer = timer; picture = ppu } }
    {
        let quiet = quiet_of(&timer, &ppu);
        Devices {
            timer,
            ppu,
            owed: 0,
            quiet,
        }
    }

    /// Both at power-up.
    pub fn new() -> Devices
        ensures { result ≡ record { timer = at_power_up; picture = power_up } }
    {
        Devices::of(Timer::new(), Ppu::new())
    }

    /// The timer.
    pub fn timer(&self) -> Timer
        ensures { result ≡ self.now.timer }
    {
        let mut timer = self.timer;
        timer.advance(self.owed);
        timer
    }

    /// The picture.
    pub fn ppu(&self) -> Ppu
        ensures { result ≡ self.now.picture }
    {
        let mut ppu = self.ppu;
        ppu.advance(self.owed);
        ppu
    }

    /// The timer becomes this one, and the picture stays.
    pub fn set_timer(&mut self, timer: Timer)
        ensures { self.new ≡ record self.old { timer = timer } }
    {
        *self = Devices::of(timer, self.ppu());
    }

    /// The picture becomes this one, and the timer stays.
    pub fn set_ppu(&mut self, ppu: Ppu)
        ensures { self.new ≡ record self.old { picture = ppu } }
    {
        *self = Devices::of(self.timer(), ppu);
    }

    /// Lets timer and picture see what is owed, where the picture changes in it more than its place: whoever asks for it
    /// again and again then goes through a change once. Answers whether they saw it, for whoever counts that.
    pub fn settle(&mut self) -> bool
        ensures { self.new ≡ self.old }
    {
        let is_due = u16::from(self.owed) > self.ppu.quiet();
        if is_due {
            *self = Devices::of(self.timer(), self.ppu());
        }
        is_due
    }

    /// Lets M-cycles pass in which nothing is requested and no line is drawn: so many at most. Answers how many.
    #[inline]
    #[tactic(auto, using(crate::proofs::Stillness::owed_more))]
    pub fn wait(&mut self, most: u8) -> u8
        ensures few { result ≤ most }
        ensures still { IsStill self.old result }
        ensures passed { self.new ≡ after self.old result }
    {
        let left = self.quiet - self.owed;
        if most < left {
            self.owed += most;
            most
        } else {
            self.owed += left;
            left
        }
    }

    /// Lets n M-cycles pass if nothing is requested in them and no line drawn. Answers whether they passed.
    #[inline]
    #[tactic(auto, using(crate::proofs::Stillness::owed_more))]
    pub fn owe(&mut self, n: u8) -> bool
        ensures still { result ≡ true → IsStill self.old n }
        ensures passed { result ≡ true → self.new ≡ after self.old n }
        ensures same { result ≡ false → self.new ≡ self.old }
    {
        if n <= self.quiet - self.owed {
            self.owed += n;
            true
        } else {
            false
        }
    }
}
