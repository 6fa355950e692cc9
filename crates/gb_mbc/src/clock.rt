//! The clock of MBC3.

ghost use Rattle.std.specs.Prelude.{◌≡◌, ◌<◌, ◌≤◌, false};
ghost use Rattle.gb_mbc.specs.Clock as Clocks;
ghost use Rattle.gb_mbc.specs.Counting as Counting;

use std::marker::Model;

/// A register of the clock: 08 to 0C.
#[derive(Clone, Copy, PartialEq, Eq)]
pub enum ClockRegister {
    Seconds,
    Minutes,
    Hours,
    DayLow,
    DayHigh,
}

/// What the clock's registers hold.
#[derive(Clone, Copy, PartialEq, Eq)]
pub struct Time {
    pub seconds: u8,
    pub minutes: u8,
    pub hours: u8,
    /// Nine bits.
    pub days: u16,
    pub is_halted: bool,
    /// Day 511 was left since it was cleared.
    pub has_carried: bool,
}

/// A field after many counts, and how often it carried.
#[derive(Clone, Copy, PartialEq, Eq)]
struct Counted {
    value: u8,
    carries: u32,
}

/// A field that counts up within `size` values, and from its last but `length` carries: a value behind
/// that goes on to the end of its mask, and from there to 0 without a carry.
#[tactic(auto, unfolding(crate::specs::Counting::value_after, crate::specs::Counting::carries_after))]
fn count(value: u8, length: u8, size: u8, counts: u32) -> Counted
    requires length { 0 < length }
    requires size { value < size }
    ensures value { result.value ≡ Counting.value_after length size value counts }
    ensures carries { result.carries ≡ Counting.carries_after length size value counts }
    ensures small { length ≤ size → result.value < size }
{
    let counts = u64::from(counts);
    let length = u64::from(length);
    if u64::from(value) < length {
        let total = u64::from(value) + counts;
        return Counted {
            value: (total % length) as u8,
            carries: (total / length) as u32,
        };
    }
    let way = u64::from(size - value);
    if counts < way {
        return Counted {
            value: value + counts as u8,
            carries: 0,
        };
    }
    Counted {
        value: ((counts - way) % length) as u8,
        carries: ((counts - way) / length) as u32,
    }
}

/// So many seconds later, of a clock that is not halted.
#[tactic(auto, using(crate::proofs::Seconds::seconds_later_on))]
fn seconds_later(time: Time, seconds: u32) -> Time
    requires time { Clocks.IsTime time }
    requires running { time.is_halted ≡ false }
    ensures time { result ≡ Clocks.seconds_later seconds time }
    ensures fields { Clocks.IsTime result }
{
    let seconds = count(time.seconds, 60, 64, seconds);
    let minutes = count(time.minutes, 60, 64, seconds.carries);
    let hours = count(time.hours, 24, 32, minutes.carries);
    let days = u64::from(time.days) + u64::from(hours.carries);
    Time {
        seconds: seconds.value,
        minutes: minutes.value,
        hours: hours.value,
        days: (days % 512) as u16,
        is_halted: time.is_halted,
        has_carried: time.has_carried || days >= 512,
    }
}

/// What a register reads.
#[tactic(auto, unfolding(crate::specs::Clock::field, gb_ops::specs::Flags::bit_of))]
fn field(register: ClockRegister, time: Time) -> u8
    requires { Clocks.IsTime time }
    ensures { result ≡ Clocks.field register time }
{
    match register {
        ClockRegister::Seconds => time.seconds,
        ClockRegister::Minutes => time.minutes,
        ClockRegister::Hours => time.hours,
        ClockRegister::DayLow => (time.days % 256) as u8,
        ClockRegister::DayHigh => {
            let halted = if time.is_halted { 64 } else { 0 };
            let carried = if time.has_carried { 128 } else { 0 };
            (time.days / 256) as u8 + halted + carried
        }
    }
}

/// A time after a write to a register.
#[tactic(auto, unfolding(crate::specs::Clock::with_field))]
fn with_field(register: ClockRegister, value: u8, time: Time) -> Time
    requires { Clocks.IsTime time }
    ensures time { result ≡ Clocks.with_field register value time }
    ensures fields { Clocks.IsTime result }
{
    match register {
        ClockRegister::Seconds => Time {
            seconds: value % 64,
            ..time
        },
        ClockRegister::Minutes => Time {
            minutes: value % 64,
            ..time
        },
        ClockRegister::Hours => Time {
            hours: value % 32,
            ..time
        },
        ClockRegister::DayLow => Time {
            days: time.days / 256 * 256 + u16::from(value),
            ..time
        },
        ClockRegister::DayHigh => Time {
            days: u16::from(value % 2) * 256 + time.days % 256,
            is_halted: value / 64 % 2 == 1,
            has_carried: value / 128 % 2 == 1,
            ..time
        },
    }
}

/// The clock of a cartridge: it runs by the seconds that are handed in, and what is read is what was
/// latched last.
#[derive(Clone, Copy)]
pub struct Clock {
    running: Time,
    latched: Time,
    /// The last write to 6000-7FFF was 00.
    is_armed: bool,
}

impl Model for Clock {
    ghost use Rattle.gb_mbc.specs.Clock.{ClockState, IsTime};

    ghost Value = { ClockState };

    ghost view = { λ s. record { running = s.running; latched = s.latched; is_armed = s.is_armed } };

    ghost inverse = { λ s. record { running = s.running; latched = s.latched; is_armed = s.is_armed } };

    ghost invariant = { λ s. IsTime s.running × IsTime s.latched };
}

impl Clock {
    /// The clock at power-up: all zeros.
    pub fn new() -> Clock
        ensures { result ≡ Clocks.clock_at_power_up }
    {
        let midnight = Time {
            seconds: 0,
            minutes: 0,
            hours: 0,
            days: 0,
            is_halted: false,
            has_carried: false,
        };
        Clock {
            running: midnight,
            latched: midnight,
            is_armed: false,
        }
    }

    /// So many seconds pass.
    #[tactic(auto, using(crate::proofs::Halted::stays), unfolding(crate::specs::Clock::advanced))]
    pub fn advance(&mut self, seconds: u32)
        ensures { self.new ≡ Clocks.advanced self.old seconds }
    {
        if seconds > 0 && !self.running.is_halted {
            self.running = seconds_later(self.running, seconds);
        }
    }

    /// All five registers are read from now on as they are now.
    #[tactic(auto, unfolding(crate::specs::Clock::latched))]
    pub fn latch(&mut self)
        ensures { self.new ≡ Clocks.latched self.old }
    {
        self.latched = self.running;
    }

    /// A write to 6000-7FFF: 01 just behind 00 latches.
    #[tactic(auto, unfolding(crate::specs::Clock::commanded))]
    pub fn command(&mut self, value: u8)
        ensures { self.new ≡ Clocks.commanded self.old value }
    {
        if self.is_armed && value == 1 {
            self.latch();
        }
        self.is_armed = value == 0;
    }

    /// What a register read as it was latched.
    pub fn get(&self, register: ClockRegister) -> u8
        ensures { result ≡ Clocks.field register self.now.latched }
    {
        field(register, self.latched)
    }

    /// A write to a register of the running clock: of each the bits that it has.
    #[tactic(auto, unfolding(crate::specs::Clock::put))]
    pub fn put(&mut self, register: ClockRegister, value: u8)
        ensures { self.new ≡ Clocks.put self.old register value }
    {
        self.running = with_field(register, value, self.running);
    }
}
