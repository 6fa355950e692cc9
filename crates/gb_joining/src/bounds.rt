//! Bounds of pairs.

use gb_verify::gb_ops::op::Register;
use gb_verify::gb_ops::registers::Registers;
use gb_verify::{Bounds, PairFacts, Pairs, Val, WordPair};

/// The pairs that words are known of.
pub const WORD_PAIRS: [WordPair; 3] = [WordPair::Bc, WordPair::De, WordPair::Hl];

/// What is known of a pair.
pub fn facts_of(pair: WordPair, pairs: &Pairs) -> PairFacts {
    match pair {
        WordPair::Bc => pairs.bc,
        WordPair::De => pairs.de,
        WordPair::Hl => pairs.hl,
    }
}

/// Sets what is known of a pair.
pub fn set_facts(pair: WordPair, facts: PairFacts, pairs: &mut Pairs) {
    match pair {
        WordPair::Bc => pairs.bc = facts,
        WordPair::De => pairs.de = facts,
        WordPair::Hl => pairs.hl = facts,
    }
}

/// The registers of a pair, the high one first.
pub fn halves_of(pair: WordPair) -> (Register, Register) {
    match pair {
        WordPair::Bc => (Register::B, Register::C),
        WordPair::De => (Register::D, Register::E),
        WordPair::Hl => (Register::H, Register::L),
    }
}

/// The words whose bytes are among those of a pair's registers.
pub fn box_of(pair: WordPair, registers: &Registers<Val>) -> Bounds {
    let (high, low) = halves_of(pair);
    let high = registers.get(high);
    let low = registers.get(low);
    Bounds {
        first: u16::from_be_bytes([high.lo, low.lo]),
        last: u16::from_be_bytes([high.hi, low.hi]),
    }
}

/// The bounds of a pair: by its bytes, and by its own bounds.
pub fn bounds_of(pair: WordPair, registers: &Registers<Val>, pairs: &Pairs) -> Bounds {
    let by_bytes = box_of(pair, registers);
    let own = facts_of(pair, pairs).bounds;
    Bounds {
        first: by_bytes.first.max(own.first),
        last: by_bytes.last.min(own.last),
    }
}
