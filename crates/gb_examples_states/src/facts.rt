//! States by some facts, each in a few words.

use gb_abs::cells::with_cell;
use gb_domain::pairs::{ANY_BOUNDS, Bounds, Link, Other, PairFacts, Pairs, WordPair};
use gb_domain::places::Test;
use gb_domain::relations::Relations;
use gb_domain::types::{Abs, Core, Rules, Val};
use gb_ops::op::Register;
use gb_ops::registers::Registers;
use gb_pairs::values::Values;
use gb_samples::states::{ANY, EITHER, entered, from_to, own, with_carry};

/// A fact of a state. Of what no fact speaks nothing is known.
#[derive(Clone, Copy)]
pub enum StateFact {
    /// A register is in these bounds.
    Byte(Register, u8, u8),
    /// A register is one of each 2^n-th value, n the last number, from the first one to the second.
    Each(Register, u8, u8, u8),
    /// A register holds what the second one held as the procedure was entered.
    Held(Register, Register),
    /// These registers hold one byte.
    Same(&'static [Register]),
    /// The byte at this address of memory is the same.
    At(u16),
    /// It is in these bounds.
    Memory(u8, u8),
    /// Z is set exactly where the one byte is this one, C exactly where it is below.
    Compared(u8),
    /// Z is set exactly where the one byte has none of these bits.
    Bits(u8),
    /// Z is set exactly where this pair is 0.
    Zero(WordPair),
    /// A pair's own bounds.
    Word(WordPair, u16, u16),
    /// A pair, and this factor times the other, are this sum.
    Link(WordPair, u16, Other, u16),
    /// They are one of the words from this one on, as many more as the last number.
    Wide(WordPair, u16, Other, u16, u16),
    /// They are so once what the second pair held as the procedure was entered is taken off.
    Based(WordPair, u16, Other, WordPair, u16, u16),
}

/// What some facts say.
#[derive(Clone, Copy)]
pub struct KnownFact {
    pub registers: Registers<Val>,
    pub memory: Val,
    pub relations: Relations,
}

fn facts_of(pair: WordPair, pairs: &mut Pairs) -> &mut PairFacts {
    match pair {
        WordPair::Bc => &mut pairs.bc,
        WordPair::De => &mut pairs.de,
        WordPair::Hl => &mut pairs.hl,
    }
}

impl KnownFact {
    /// What these facts say.
    pub fn new(facts: &[StateFact]) -> KnownFact {
        let mut known = KnownFact {
            registers: Registers {
                a: ANY,
                b: ANY,
                c: ANY,
                d: ANY,
                e: ANY,
                h: ANY,
                l: ANY,
            },
            memory: ANY,
            relations: Relations::default(),
        };
        for fact in facts {
            known.learn(*fact);
        }
        known
    }

    fn learn(&mut self, fact: StateFact) {
        let relations = &mut self.relations;
        match fact {
            StateFact::Byte(register, lo, hi) => self.registers.set(register, from_to(lo, hi)),
            StateFact::Each(register, lo, hi, low_bits) => {
                let val = Val {
                    low_bits,
                    ..from_to(lo, hi)
                };
                self.registers.set(register, val);
            }
            StateFact::Held(register, held) => self.registers.set(register, own(held)),
            StateFact::Same(registers) => {
                for register in registers {
                    relations.byte.registers.set(*register, true);
                }
            }
            StateFact::At(address) => relations.byte.address = Some(address),
            StateFact::Memory(lo, hi) => self.memory = from_to(lo, hi),
            StateFact::Compared(value) => relations.byte.test = Some(Test::Compare(value)),
            StateFact::Bits(mask) => relations.byte.test = Some(Test::Bits(mask)),
            StateFact::Zero(pair) => relations.zero = Some(pair),
            StateFact::Word(pair, first, last) => {
                facts_of(pair, &mut relations.pairs).bounds = Bounds { first, last };
            }
            StateFact::Link(pair, factor, other, sum) => {
                facts_of(pair, &mut relations.pairs).link = Some(Link {
                    other,
                    factor,
                    base: None,
                    sum,
                    width: 0,
                });
            }
            StateFact::Wide(pair, factor, other, sum, width) => {
                facts_of(pair, &mut relations.pairs).link = Some(Link {
                    other,
                    factor,
                    base: None,
                    sum,
                    width,
                });
            }
            StateFact::Based(pair, factor, other, base, sum, width) => {
                facts_of(pair, &mut relations.pairs).link = Some(Link {
                    other,
                    factor,
                    base: Some(base),
                    sum,
                    width,
                });
            }
        }
    }

    /// The registers and the pairs.
    pub fn values(&self) -> Values {
        Values {
            registers: self.registers,
            pairs: self.relations.pairs,
        }
    }

    /// A state of which this is known.
    pub fn state(&self) -> Abs {
        let core = Core {
            flags: with_carry(EITHER),
            registers: self.registers,
            ..entered()
        };
        let plain = Abs::new(core);
        let mut state = match self.relations.byte.address {
            Some(address) => with_cell(Rules::Extended, &plain, address, self.memory),
            None => plain,
        };
        state.set_relations(self.relations);
        state
    }
}
