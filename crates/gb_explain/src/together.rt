//! What is known of several parts of a state together, as a person reads it.

use gb_verify::gb_ops::op::Register;
use gb_verify::gb_ops::registers::Registers;
use gb_verify::{Bounds, Link, OneByte, Other, PairFacts, Pairs, Relations, Test, WordPair};
use std::fmt;

/// All registers.
pub(crate) const REGISTERS: [Register; 7] = [
    Register::A,
    Register::B,
    Register::C,
    Register::D,
    Register::E,
    Register::H,
    Register::L,
];

/// What separates two facts.
pub(crate) const BETWEEN: &str = "; ";

/// What the flags' test compares a byte with, if it compares.
pub(crate) fn compared(relations: &Relations) -> Option<u8> {
    match relations.byte.test {
        Some(Test::Compare(value)) => Some(value),
        _ => None,
    }
}

fn has_others_than_a(registers: &Registers<bool>) -> bool {
    registers.b || registers.c || registers.d || registers.e || registers.h || registers.l
}

/// Whether there is no place, or A alone, compared with a byte.
fn is_test_byte(byte: &OneByte) -> bool {
    let is_tested = match byte.test {
        None => !byte.registers.a,
        Some(Test::Compare(_)) => byte.registers.a,
        Some(Test::Bits(_)) => false,
    };
    is_tested && byte.address.is_none() && !has_others_than_a(&byte.registers)
}

fn is_bounded(facts: &PairFacts) -> bool {
    facts.bounds.first != 0 || facts.bounds.last != 0xFFFF
}

fn is_known(facts: &PairFacts) -> bool {
    is_bounded(facts) || facts.link.is_some()
}

/// Whether nothing is known of several parts together but a test of A.
pub(crate) fn is_test_alone(relations: &Relations) -> bool {
    let Relations { byte, zero, pairs } = relations;
    is_test_byte(byte)
        && zero.is_none()
        && !is_known(&pairs.bc)
        && !is_known(&pairs.de)
        && !is_known(&pairs.hl)
}

/// What is known of a pair, if the other state knows something of it.
fn known_as(facts: PairFacts, other: &PairFacts) -> PairFacts {
    if is_known(other) { facts } else { *other }
}

/// What is known together, without the pairs of which the other state knows nothing.
pub(crate) fn compared_with(relations: &Relations, other: &Relations) -> Relations {
    Relations {
        pairs: Pairs {
            bc: known_as(relations.pairs.bc, &other.pairs.bc),
            de: known_as(relations.pairs.de, &other.pairs.de),
            hl: known_as(relations.pairs.hl, &other.pairs.hl),
        },
        ..*relations
    }
}

fn pair_name(pair: WordPair) -> &'static str {
    match pair {
        WordPair::Bc => "BC",
        WordPair::De => "DE",
        WordPair::Hl => "HL",
    }
}

/// Prints the places of a byte, and answers what separates them from the next fact.
fn fmt_places<W: fmt::Write>(
    byte: &OneByte,
    f: &mut fmt::Formatter<W>,
) -> Result<&'static str, fmt::Error> {
    let mut before = "";
    for register in REGISTERS {
        if byte.registers.get(register) {
            write!(f, "{before}{}", register.name())?;
            before = " = ";
        }
    }
    if let Some(address) = byte.address {
        write!(f, "{before}${address:04X}")?;
        before = " = ";
    }
    Ok(if before == "" { "" } else { BETWEEN })
}

fn fmt_test<W: fmt::Write>(test: Option<Test>, f: &mut fmt::Formatter<W>) -> fmt::Result {
    match test {
        None => Ok(()),
        Some(Test::Compare(value)) => write!(f, " compared with ${value:02X}"),
        Some(Test::Bits(bits)) => write!(f, " tested by ${bits:02X}"),
    }
}

/// Prints what a link reads besides its pair and its base, if it reads something.
fn fmt_other<W: fmt::Write>(other: Other, factor: u16, f: &mut fmt::Formatter<W>) -> fmt::Result {
    match other {
        Other::Register(register) => write!(f, " + ${factor:04X} * {}", register.name()),
        Other::Pair(pair) => write!(f, " + ${factor:04X} * {}", pair_name(pair)),
        Other::Cell(address) => write!(f, " + ${factor:04X} * the byte at ${address:04X}"),
        Other::Nothing => Ok(()),
    }
}

fn fmt_link<W: fmt::Write>(pair: &str, link: Link, f: &mut fmt::Formatter<W>) -> fmt::Result {
    let Link {
        other,
        factor,
        base,
        sum,
        width,
    } = link;
    write!(f, "{pair}")?;
    fmt_other(other, factor, f)?;
    if let Some(base) = base {
        write!(f, " - {} at entry", pair_name(base))?;
    }
    write!(f, " = ${sum:04X}")?;
    if width != 0 {
        let last = sum.wrapping_add(width);
        write!(f, " to ${last:04X}")?;
    }
    Ok(())
}

fn fmt_bounds<W: fmt::Write>(bounds: Bounds, f: &mut fmt::Formatter<W>) -> fmt::Result {
    let Bounds { first, last } = bounds;
    write!(f, "${first:04X}")?;
    if first != last {
        write!(f, "..${last:04X}")?;
    }
    Ok(())
}

/// Prints what is known of a pair after this text, and answers what separates it from the next fact.
fn fmt_pair<W: fmt::Write>(
    before: &'static str,
    pair: WordPair,
    facts: &PairFacts,
    f: &mut fmt::Formatter<W>,
) -> Result<&'static str, fmt::Error> {
    let pair = pair_name(pair);
    let PairFacts { bounds, link } = *facts;
    let mut before = before;
    if is_bounded(facts) {
        write!(f, "{before}{pair} ")?;
        fmt_bounds(bounds, f)?;
        before = BETWEEN;
    }
    if let Some(link) = link {
        write!(f, "{before}")?;
        fmt_link(pair, link, f)?;
        before = BETWEEN;
    }
    Ok(before)
}

/// Prints all that is known together.
pub(crate) fn fmt_relations<W: fmt::Write>(
    relations: &Relations,
    f: &mut fmt::Formatter<W>,
) -> fmt::Result {
    let Relations { byte, zero, pairs } = relations;
    let mut before = fmt_places(byte, f)?;
    fmt_test(byte.test, f)?;
    if let Some(pair) = *zero {
        write!(f, "{before}{} 0 where Z is set", pair_name(pair))?;
        before = BETWEEN;
    }
    before = fmt_pair(before, WordPair::Bc, &pairs.bc, f)?;
    before = fmt_pair(before, WordPair::De, &pairs.de, f)?;
    before = fmt_pair(before, WordPair::Hl, &pairs.hl, f)?;
    if before == "" {
        write!(f, "nothing")?;
    }
    Ok(())
}
