//! What came of changed files.

use crate::claims::Claims;

/// How many there were, how many of them broke a rule, and which kinds were among them.
#[derive(Clone, Copy)]
pub struct Tally {
    pub inputs: u64,
    /// Those for which two answers didn't agree.
    pub wrong: u64,
    /// Those that could be read.
    pub readable: u64,
    /// Those that were accepted.
    pub accepted: u64,
    /// Bit n where the fault with the number n was among them.
    pub faults: u16,
    /// Bit n where one was refused for the reason with the number n.
    pub reasons: u32,
    /// What was compared with the machine of those that were accepted.
    pub claims: Claims,
}

impl Tally {
    pub fn new() -> Tally {
        Tally {
            inputs: 0,
            wrong: 0,
            readable: 0,
            accepted: 0,
            faults: 0,
            reasons: 0,
            claims: Claims::new(),
        }
    }

    /// Both together.
    pub fn joined(&self, other: &Tally) -> Tally {
        Tally {
            inputs: self.inputs.wrapping_add(other.inputs),
            wrong: self.wrong.wrapping_add(other.wrong),
            readable: self.readable.wrapping_add(other.readable),
            accepted: self.accepted.wrapping_add(other.accepted),
            faults: self.faults | other.faults,
            reasons: self.reasons | other.reasons,
            claims: self.claims.joined(&other.claims),
        }
    }

    /// Counts an input, and whether its answers agree.
    pub fn count(&mut self, is_right: bool) {
        self.inputs = self.inputs.wrapping_add(1);
        if !is_right {
            self.wrong = self.wrong.wrapping_add(1);
        }
    }

    pub fn count_readable(&mut self) {
        self.readable = self.readable.wrapping_add(1);
    }

    pub fn count_accepted(&mut self) {
        self.accepted = self.accepted.wrapping_add(1);
    }

    /// Notes a fault by its number.
    pub fn note(&mut self, number: u8) {
        if number < 16 {
            self.faults |= 1 << number;
        }
    }

    /// Notes a refusal by its reason's number.
    pub fn note_reason(&mut self, number: u8) {
        if number < 32 {
            self.reasons |= 1 << number;
        }
    }

    /// Whether one was refused for the reason with this number.
    pub fn has_reason(&self, number: u8) -> bool {
        number < 32 && self.reasons & (1 << number) != 0
    }

    /// Whether each fault from 1 to this one was among them.
    pub fn has_all(&self, last: u8) -> bool {
        (1..=last).all(|number| number < 16 && self.faults & (1 << number) != 0)
    }
}
