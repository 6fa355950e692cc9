//! What is known of several parts of a state together.

use gb_domain::pairs::{Link, Other, PairFacts, Pairs, WordPair};
use gb_domain::places::{NO_REGISTER, OneByte, Test};
use gb_domain::relations::Relations;
use gb_ops::registers::Registers;

/// What the flags say of A, compared with a byte, and nothing else.
pub fn compared(with: Option<u8>) -> Relations {
    let Some(value) = with else {
        return Relations::default();
    };
    Relations {
        byte: OneByte {
            registers: Registers {
                a: true,
                ..NO_REGISTER
            },
            address: None,
            test: Some(Test::Compare(value)),
        },
        ..Relations::default()
    }
}

fn pair_number(pair: WordPair) -> u8 {
    match pair {
        WordPair::Bc => 0,
        WordPair::De => 1,
        WordPair::Hl => 2,
    }
}

fn is_named_same(one: Option<WordPair>, other: Option<WordPair>) -> bool {
    one.map(pair_number) == other.map(pair_number)
}

fn is_test_same(one: Option<Test>, other: Option<Test>) -> bool {
    match (one, other) {
        (Some(Test::Compare(n)), Some(Test::Compare(m)))
        | (Some(Test::Bits(n)), Some(Test::Bits(m))) => n == m,
        (None, None) => true,
        _ => false,
    }
}

fn is_byte_same(one: &OneByte, other: &OneByte) -> bool {
    one.registers == other.registers
        && one.address == other.address
        && is_test_same(one.test, other.test)
}

fn is_read_same(one: Other, other: Other) -> bool {
    match (one, other) {
        (Other::Register(r), Other::Register(s)) => r == s,
        (Other::Pair(p), Other::Pair(q)) => pair_number(p) == pair_number(q),
        (Other::Cell(a), Other::Cell(b)) => a == b,
        (Other::Nothing, Other::Nothing) => true,
        _ => false,
    }
}

fn is_link_same(one: Option<Link>, other: Option<Link>) -> bool {
    match (one, other) {
        (Some(l), Some(m)) => {
            is_read_same(l.other, m.other)
                && l.factor == m.factor
                && is_named_same(l.base, m.base)
                && l.sum == m.sum
                && l.width == m.width
        }
        (None, None) => true,
        _ => false,
    }
}

fn is_pair_same(one: &PairFacts, other: &PairFacts) -> bool {
    one.bounds.first == other.bounds.first
        && one.bounds.last == other.bounds.last
        && is_link_same(one.link, other.link)
}

/// Whether the same is known of each pair.
pub fn are_pairs_same(one: &Pairs, other: &Pairs) -> bool {
    is_pair_same(&one.bc, &other.bc)
        && is_pair_same(&one.de, &other.de)
        && is_pair_same(&one.hl, &other.hl)
}

/// Whether the same is known of several parts together.
pub fn are_same(one: &Relations, other: &Relations) -> bool {
    is_byte_same(&one.byte, &other.byte)
        && is_named_same(one.zero, other.zero)
        && are_pairs_same(&one.pairs, &other.pairs)
}
