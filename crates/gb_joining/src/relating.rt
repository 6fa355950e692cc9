//! What is known of several parts together in two states.

use crate::bounds::{WORD_PAIRS, bounds_of, box_of, facts_of, set_facts};
use crate::configuration::Edition;
use crate::linking::{are_same_links, holds_link};
use crate::register_set::REGISTERS;
use gb_verify::gb_ops::registers::Registers;
use gb_verify::{
    ANY_BOUNDS, Abs, Bounds, Link, NO_REGISTER, OneByte, PairFacts, Pairs, Program, Relations,
    States, Test, Val, WordPair, byte_of,
};

/// A state in a program: its registers, what is known of several parts of it together, and what is known of RAM.
#[derive(Clone, Copy)]
pub struct KnownRelations<'a> {
    pub program: &'a Program<'a>,
    pub state: &'a Abs,
    pub registers: &'a Registers<Val>,
    pub relations: &'a Relations,
}

impl<'a> KnownRelations<'a> {
    /// The bounds of a pair.
    pub fn bounds(&self, pair: WordPair) -> Bounds {
        bounds_of(pair, self.registers, &self.relations.pairs)
    }

    /// What is known of a byte of RAM.
    pub fn byte_at(&self, address: u16) -> Val {
        byte_of(self.program, &States::of(self.state), address)
    }

    /// The link of a pair.
    pub fn link(&self, pair: WordPair) -> Option<Link> {
        facts_of(pair, &self.relations.pairs).link
    }
}

fn are_same_tests(a: Test, b: Test) -> bool {
    match (a, b) {
        (Test::Compare(x), Test::Compare(y)) => x == y,
        (Test::Bits(x), Test::Bits(y)) => x == y,
        _ => false,
    }
}

/// What the flags say in both.
fn join_test(a: Option<Test>, b: Option<Test>) -> Option<Test> {
    match (a, b) {
        (Some(x), Some(y)) if are_same_tests(x, y) => Some(x),
        _ => None,
    }
}

/// The registers that are among both.
fn join_places(a: &Registers<bool>, b: &Registers<bool>) -> Registers<bool> {
    let mut both = NO_REGISTER;
    for register in REGISTERS {
        both.set(register, a.get(register) && b.get(register));
    }
    both
}

fn has_register(registers: &Registers<bool>) -> bool {
    REGISTERS.iter().any(|register| registers.get(*register))
}

/// The places that hold one byte in both, and what the flags say of it.
fn join_byte(a: &OneByte, b: &OneByte) -> OneByte {
    let registers = join_places(&a.registers, &b.registers);
    let address = match (a.address, b.address) {
        (Some(x), Some(y)) if x == y => Some(x),
        _ => None,
    };
    if address.is_none() && !has_register(&registers) {
        return OneByte::default();
    }
    OneByte {
        registers,
        address,
        test: join_test(a.test, b.test),
    }
}

pub fn are_same_pairs(a: WordPair, b: WordPair) -> bool {
    matches!(
        (a, b),
        (WordPair::Bc, WordPair::Bc) | (WordPair::De, WordPair::De) | (WordPair::Hl, WordPair::Hl)
    )
}

/// The pair of which Z says in both whether it is 0.
fn join_zero(a: Option<WordPair>, b: Option<WordPair>) -> Option<WordPair> {
    match (a, b) {
        (Some(x), Some(y)) if are_same_pairs(x, y) => Some(x),
        _ => None,
    }
}

/// The bounds around both.
pub fn hull(a: Bounds, b: Bounds) -> Bounds {
    Bounds {
        first: a.first.min(b.first),
        last: a.last.max(b.last),
    }
}

/// The link of a pair that holds in both: one that both have, or that one has and the other's single values meet.
fn join_link(
    edition: Edition,
    pair: WordPair,
    a: KnownRelations<'_>,
    b: KnownRelations<'_>,
) -> Option<Link> {
    match (a.link(pair), b.link(pair)) {
        (Some(x), Some(y)) if are_same_links(&x, &y) => Some(x),
        (Some(x), _) if holds_link(edition, pair, &x, b) => Some(x),
        (_, Some(y)) if holds_link(edition, pair, &y, a) => Some(y),
        _ => None,
    }
}

/// What is known of pairs in both.
fn join_pairs(edition: Edition, a: KnownRelations<'_>, b: KnownRelations<'_>) -> Pairs {
    let mut pairs = Pairs::default();
    for pair in WORD_PAIRS {
        let facts = PairFacts {
            bounds: hull(a.bounds(pair), b.bounds(pair)),
            link: join_link(edition, pair, a, b),
        };
        set_facts(pair, facts, &mut pairs);
    }
    pairs
}

/// Bounds of pairs that say no more than their bytes are dropped: without them the same is meant, in fewer bytes.
pub fn without_boxes(registers: &Registers<Val>, relations: &Relations) -> Relations {
    let mut pairs = relations.pairs;
    for pair in WORD_PAIRS {
        let facts = facts_of(pair, &pairs);
        let by_bytes = box_of(pair, registers);
        if facts.bounds.first <= by_bytes.first && by_bytes.last <= facts.bounds.last {
            let bounds = ANY_BOUNDS;
            set_facts(pair, PairFacts { bounds, ..facts }, &mut pairs);
        }
    }
    Relations {
        pairs,
        ..*relations
    }
}

/// What is known of several parts together in both, by the rules of versions 3 and 4.
pub fn join_relations(edition: Edition, a: KnownRelations<'_>, b: KnownRelations<'_>) -> Relations {
    Relations {
        byte: join_byte(&a.relations.byte, &b.relations.byte),
        zero: join_zero(a.relations.zero, b.relations.zero),
        pairs: join_pairs(edition, a, b),
    }
}
