//! The divider and the timer (Pan Docs: Timer and Divider Registers).

ghost use Rattle.std.specs.Prelude.{◌≡◌, ◌+◌, ◌%◌, ◌<◌, ◌≤◌};
ghost use Rattle.gb_timer.specs.Timer.{Counters, IsInRange, at_power_up, period, counts, first_overflow, between_overflows, tima_after, overflows, advanced, ticks, overflows_in, div_of};

use crate::bits::is_set;
use std::marker::Model;

/// DIV, TIMA, TMA and TAC, with the counter of M-cycles behind DIV.
#[derive(Clone, Copy)]
pub struct Timer {
    /// M-cycles, modulo 16,384.
    counter: u16,
    tima: u8,
    tma: u8,
    /// The low three bits of TAC.
    tac: u8,
}

impl Model for Timer {
    ghost use Rattle.std.specs.Prelude.{◌<◌};
    ghost use Rattle.gb_timer.specs.Timer.{Counters};

    ghost Value = { Counters };

    ghost view = { λ t. record { counter = t.counter; tima = t.tima; tma = t.tma; tac = t.tac } };

    ghost inverse = { λ t. record { counter = t.counter; tima = t.tima; tma = t.tma; tac = t.tac } };

    ghost invariant = { λ t. (t.counter < 16384) × (t.tac < 8) };
}

#[tactic(auto, unfolding(crate::specs::Timer::period))]
fn period(tac: u8) -> u16
    ensures period { result ≡ period tac }
    ensures positive { 0 < result }
    ensures small { result ≤ 256 }
{
    match tac % 4 {
        0 => 256,
        1 => 4,
        2 => 16,
        _ => 64,
    }
}

impl Timer {
    /// The timer at power-up: all 0.
    pub fn new() -> Timer
        ensures { result ≡ at_power_up }
    {
        Timer {
            counter: 0,
            tima: 0,
            tma: 0,
            tac: 0,
        }
    }

    #[tactic(auto, unfolding(crate::specs::Timer::counts))]
    fn counts(&self, n: u8) -> u16
        ensures { result ≡ counts self.now n }
    {
        if is_set(self.tac, 2) {
            let period = period(self.tac);
            (self.counter + n as u16) / period - self.counter / period
        } else {
            0
        }
    }

    fn first_overflow(&self) -> u16
        ensures first { result ≡ first_overflow self.now }
        ensures positive { 0 < result }
    {
        256 - self.tima as u16
    }

    fn between_overflows(&self) -> u16
        ensures between { result ≡ between_overflows self.now }
        ensures positive { 0 < result }
    {
        256 - self.tma as u16
    }

    #[tactic(auto, unfolding(crate::specs::Timer::tima_after))]
    fn tima_after(&self, counts: u16) -> u8
        ensures { result ≡ tima_after self.now counts }
    {
        let first = self.first_overflow();
        if counts < first {
            self.tima + counts as u8
        } else {
            self.tma + ((counts - first) % self.between_overflows()) as u8
        }
    }

    #[tactic(auto, unfolding(crate::specs::Timer::overflows))]
    fn overflows(&self, counts: u16) -> u32
        ensures { result ≡ overflows self.now counts }
    {
        let first = self.first_overflow();
        if counts < first {
            0
        } else {
            1 + ((counts - first) / self.between_overflows()) as u32
        }
    }

    #[tactic(auto, unfolding(crate::specs::Timer::advanced))]
    fn pass(&mut self, n: u8) -> u32
        ensures range { IsInRange self.old }
        ensures state { self.new ≡ advanced self.old n }
        ensures overflows { result ≡ overflows self.old (counts self.old n) }
    {
        let counts = self.counts(n);
        let overflows = self.overflows(counts);
        let tima = self.tima_after(counts);
        self.counter = (self.counter + n as u16) % 16384;
        self.tima = tima;
        overflows
    }

    /// Lets n M-cycles pass and answers how often TIMA overflowed: each time it loads TMA and the timer's interrupt is requested.
    ///
    /// It takes the same few steps for any n, and is the same as n single M-cycles one by one.
    pub fn advance(&mut self, n: u8) -> u32
        ensures state { self.new ≡ advanced self.old n }
        ensures overflows { result ≡ overflows self.old (counts self.old n) }
        ensures state_by_cycles { self.new ≡ ticks self.old n }
        ensures overflows_by_cycles { result ≡ overflows_in self.old n }
    {
        self.pass(n)
    }

    /// So many M-cycles pass without an overflow; more may.
    #[tactic(auto, using(crate::proofs::Passing::quiet))]
    pub fn quiet(&self) -> u16
        ensures quiet { overflows self.now (counts self.now result) ≡ 0 }
        ensures range { IsInRange self.now }
    {
        if is_set(self.tac, 2) {
            let period = period(self.tac);
            period * (255 - self.tima as u16) + (period - 1 - self.counter % period)
        } else {
            u16::MAX
        }
    }

    /// DIV: the counter divided by 64, modulo 256.
    #[tactic(auto, unfolding(crate::specs::Timer::div_of))]
    pub fn div(&self) -> u8
        ensures { result ≡ div_of self.now }
    {
        (self.counter / 64) as u8
    }

    /// A write to DIV, of any byte: the counter becomes 0, which counts nothing for TIMA.
    pub fn clear_div(&mut self)
        ensures { self.new ≡ record self.old { counter = 0 } }
    {
        self.counter = 0;
    }

    pub fn tima(&self) -> u8
        ensures { result ≡ self.now.tima }
    {
        self.tima
    }

    pub fn set_tima(&mut self, value: u8)
        ensures { self.new ≡ record self.old { tima = value } }
    {
        self.tima = value;
    }

    pub fn tma(&self) -> u8
        ensures { result ≡ self.now.tma }
    {
        self.tma
    }

    pub fn set_tma(&mut self, value: u8)
        ensures { self.new ≡ record self.old { tma = value } }
    {
        self.tma = value;
    }

    /// TAC, whose bits 7 to 3 read as 1.
    pub fn tac(&self) -> u8
        ensures { result ≡ 0xF8 + self.now.tac }
    {
        0xF8 + self.tac
    }

    /// A write to TAC, of which the low three bits stay.
    pub fn set_tac(&mut self, value: u8)
        ensures { self.new ≡ record self.old { tac = value % 8 } }
    {
        self.tac = value % 8;
    }
}
