//! What a state says of several registers and bytes together.

use crate::reached::ReachedState;
use crate::values::{Entered, REGISTERS};
use gb_cpu::Bus;
use gb_domain::{Link, OneByte, Other, PairFacts, Relations, Test, WordPair};
use gb_ops::registers::{Flags, Registers};

/// The word that a pair of registers holds.
fn word_of(pair: WordPair, registers: &Registers<u8>) -> u16 {
    u16::from_be_bytes(match pair {
        WordPair::Bc => [registers.b, registers.c],
        WordPair::De => [registers.d, registers.e],
        WordPair::Hl => [registers.h, registers.l],
    })
}

/// What a link takes off: what its base held as the procedure was entered, if that is known.
fn base_of(link: &Link, entered: Entered) -> Option<u16> {
    match (link.base, entered.processor) {
        (None, _) => Some(0),
        (Some(pair), Some(start)) => Some(word_of(pair, &start.registers)),
        (Some(_), None) => None,
    }
}

/// Whether a pair with this word, the word that its link reads and its base have one of the link's sums.
fn is_linked(word: u16, link: &Link, other: u16, entered: Entered) -> bool {
    let Some(base) = base_of(link, entered) else {
        return true;
    };
    let sum = word.wrapping_add(link.factor.wrapping_mul(other));
    sum.wrapping_sub(base).wrapping_sub(link.sum) <= link.width
}

/// Whether the flags say of a byte what a test says.
fn is_tested(byte: u8, test: Test, flags: &Flags) -> bool {
    match test {
        Test::Compare(number) => {
            flags.zero == (byte == number) && flags.carry == (byte < number)
        }
        Test::Bits(bits) => flags.zero == (byte & bits == 0),
    }
}

/// Whether Z is set exactly where the pair is 0.
fn tells_zero(pair: Option<WordPair>, registers: &Registers<u8>, flags: &Flags) -> bool {
    match pair {
        Some(pair) => flags.zero == (word_of(pair, registers) == 0),
        None => true,
    }
}

impl ReachedState<'_> {
    /// Whether all places hold one byte, and the flags say of it what its test says.
    fn keeps_one_byte(&mut self, one: &OneByte) -> bool {
        let mut held = match one.address {
            Some(address) => Some(self.memory.read(address)),
            None => None,
        };
        for register in REGISTERS {
            if one.registers.get(register) {
                let byte = self.processor.registers.get(register);
                if held.unwrap_or(byte) != byte {
                    return false;
                }
                held = Some(byte);
            }
        }
        match (held, one.test) {
            (Some(byte), Some(test)) => is_tested(byte, test, &self.processor.flags),
            _ => true,
        }
    }

    /// What a link reads besides its pair and its base.
    fn word_read(&mut self, other: Other) -> u16 {
        match other {
            Other::Register(register) => u16::from(self.processor.registers.get(register)),
            Other::Pair(pair) => word_of(pair, &self.processor.registers),
            Other::Cell(address) => u16::from(self.memory.read(address)),
            Other::Nothing => 0,
        }
    }

    fn keeps_pair(&mut self, pair: WordPair, facts: &PairFacts, entered: Entered) -> bool {
        let word = word_of(pair, &self.processor.registers);
        let has_sum = match &facts.link {
            Some(link) => is_linked(word, link, self.word_read(link.other), entered),
            None => true,
        };
        facts.bounds.first <= word && word <= facts.bounds.last && has_sum
    }

    /// Whether what is said of several parts together is so.
    pub fn keeps_relations(&mut self, relations: &Relations, entered: Entered) -> bool {
        let (registers, flags) = (self.processor.registers, self.processor.flags);
        let pairs = &relations.pairs;
        self.keeps_one_byte(&relations.byte)
            && tells_zero(relations.zero, &registers, &flags)
            && self.keeps_pair(WordPair::Bc, &pairs.bc, entered)
            && self.keeps_pair(WordPair::De, &pairs.de, entered)
            && self.keeps_pair(WordPair::Hl, &pairs.hl, entered)
    }
}
