//! The bytes of what a state says of several of its parts together, added to what is there.

ghost use Rattle.std.specs.Prelude.{◌≡◌, ◌≤◌, ◌<◌, ◌++◌, List, ℕ, OnOk};
ghost use Rattle.gb_domain.specs.RelationRules.{has_place, compared, bits_of, is_known};
ghost use Rattle.gb_states.specs.Spelling as spelled;
ghost use Rattle.gb_states.specs.RelationSpelling as told;

use crate::spelled::{flag, put, word};
use gb_domain::pairs::{Link, Other, PairFacts, Pairs, WordPair};
use gb_domain::places::{OneByte, Test, has_place};
use gb_domain::relations::Relations;
use gb_domain::types::Rules;
use gb_ops::op::Register;
use gb_ops::registers::Registers;
use gb_states::relations::{Present, reads_other};
use std::alloc::AllocError;

// ---- what there is

/// What a test compares with, where it compares.
pub(crate) fn compared(test: Option<Test>) -> Option<u8>
    ensures { result ≡ compared test }
{
    match test {
        Some(Test::Compare(value)) => Some(value),
        _ => None,
    }
}

fn bits_of(test: Option<Test>) -> Option<u8>
    ensures { result ≡ bits_of test }
{
    match test {
        Some(Test::Bits(bits)) => Some(bits),
        _ => None,
    }
}

pub(crate) fn is_known(facts: &PairFacts) -> bool
    ensures { result ≡ is_known facts.now }
{
    facts.link.is_some() || !(facts.bounds.first == 0 && facts.bounds.last == 0xFFFF)
}

/// Which parts there are, where an address is among them or not.
pub(crate) fn present_by(address: bool, relations: &Relations) -> Present
    ensures { result ≡ told.present_by address relations.now }
{
    Present {
        byte: has_place(&relations.byte),
        address,
        bits: bits_of(relations.byte.test).is_some(),
        zero: relations.zero.is_some(),
        bc: is_known(&relations.pairs.bc),
        de: is_known(&relations.pairs.de),
        hl: is_known(&relations.pairs.hl),
    }
}

pub(crate) fn present_number(present: Present) -> u8
    ensures { result ≡ told.present_number present }
{
    64 * flag(present.hl)
        + 32 * flag(present.de)
        + 16 * flag(present.bc)
        + 8 * flag(present.zero)
        + 4 * flag(present.bits)
        + 2 * flag(present.address)
        + flag(present.byte)
}

// ---- places that hold one byte

pub(crate) fn registers_number(registers: &Registers<bool>) -> u8
    ensures { result ≡ told.registers_number registers.now }
{
    64 * flag(registers.l)
        + 32 * flag(registers.h)
        + 16 * flag(registers.e)
        + 8 * flag(registers.d)
        + 4 * flag(registers.c)
        + 2 * flag(registers.b)
        + flag(registers.a)
}

/// Adds an address, where there is one.
pub(crate) fn put_address(address: Option<u16>, out: &mut Vec<u8>) -> Result<(), AllocError>
    ensures { OnOk result (out.new.items ≡ out.old.items ++ told.optional spelled.word address) }
{
    match address {
        None => Ok(()),
        Some(address) => put(&word(address), out),
    }
}

/// Adds bits, where there are some.
fn put_bits(bits: Option<u8>, out: &mut Vec<u8>) -> Result<(), AllocError>
    ensures { OnOk result (out.new.items ≡ out.old.items ++ told.optional told.byte bits) }
{
    match bits {
        None => Ok(()),
        Some(bits) => put(&[bits], out),
    }
}

/// Adds the places that hold one byte; these bytes spell the one in memory.
#[tactic(auto, unfolding(gb_states::specs::RelationSpelling::places_by))]
fn put_places(memory: &[u8], byte: &OneByte, out: &mut Vec<u8>) -> Result<(), AllocError>
    ensures { OnOk result (out.new.items ≡ out.old.items ++ told.places_by memory.now byte.now) }
{
    put(&[registers_number(&byte.registers)], out)?;
    put(memory, out)?;
    put_bits(bits_of(byte.test), out)
}

/// Adds the places that hold one byte, where there are some.
fn put_byte(memory: &[u8], byte: &OneByte, out: &mut Vec<u8>) -> Result<(), AllocError>
    ensures { OnOk result (out.new.items ≡ out.old.items ++ told.where_there (has_place byte.now) (told.places_by memory.now byte.now)) }
{
    if has_place(byte) {
        put_places(memory, byte, out)
    } else {
        Ok(())
    }
}

// ---- pairs

fn pair_number(pair: WordPair) -> u8
    ensures exact { result ≡ told.pair_number pair }
    ensures few { result ≤ 2 }
{
    match pair {
        WordPair::Bc => 0,
        WordPair::De => 1,
        WordPair::Hl => 2,
    }
}

/// Adds the pair that is 0 where Z is set, or a link's base, where there is one.
fn put_pair(pair: Option<WordPair>, out: &mut Vec<u8>) -> Result<(), AllocError>
    ensures { OnOk result (out.new.items ≡ out.old.items ++ told.optional told.pair pair) }
{
    match pair {
        None => Ok(()),
        Some(pair) => put(&[pair_number(pair)], out),
    }
}

fn other_number(other: Other) -> u8
    ensures exact { result ≡ told.other_number other }
    ensures few { result ≤ 12 }
{
    match other {
        Other::Register(Register::A) => 0,
        Other::Register(Register::B) => 1,
        Other::Register(Register::C) => 2,
        Other::Register(Register::D) => 3,
        Other::Register(Register::E) => 4,
        Other::Register(Register::H) => 5,
        Other::Register(Register::L) => 6,
        Other::Pair(pair) => 7 + pair_number(pair),
        Other::Cell(_) => 10,
        Other::Nothing => 12,
    }
}

/// Adds the address of a byte of RAM, where one is read.
fn put_argument(other: Other, out: &mut Vec<u8>) -> Result<(), AllocError>
    ensures { OnOk result (out.new.items ≡ out.old.items ++ told.argument other) }
{
    match other {
        Other::Cell(address) => put(&word(address), out),
        _ => Ok(()),
    }
}

/// Adds a width, where it is one.
fn put_width(width: u16, out: &mut Vec<u8>) -> Result<(), AllocError>
    ensures { OnOk result (out.new.items ≡ out.old.items ++ told.width width) }
{
    if width == 0 {
        Ok(())
    } else {
        put(&word(width), out)
    }
}

/// Adds the factor of what is read, where that is something.
fn put_factor(other: Other, factor: u16, out: &mut Vec<u8>) -> Result<(), AllocError>
    ensures { OnOk result (out.new.items ≡ out.old.items ++ told.factor other factor) }
{
    if reads_other(other) {
        put(&[(factor % 256) as u8], out)
    } else {
        Ok(())
    }
}

/// A link's form: what else it reads, 64 more where it has a base, and 128 more where it has a width.
fn form_number(link: &Link) -> u8
    ensures { result ≡ told.form_number link.now }
{
    128 * flag(link.width != 0) + (64 * flag(link.base.is_some()) + (1 + other_number(link.other)))
}

/// Adds a link's form, the address of what it reads of RAM, its factor, its base, its sum and its width; 0 if there is no link.
fn put_link(link: Option<Link>, out: &mut Vec<u8>) -> Result<(), AllocError>
    ensures { OnOk result (out.new.items ≡ out.old.items ++ told.link link) }
{
    match link {
        None => put(&[0], out),
        Some(link) => {
            put(&[form_number(&link)], out)?;
            put_argument(link.other, out)?;
            put_factor(link.other, link.factor, out)?;
            put_pair(link.base, out)?;
            put(&word(link.sum), out)?;
            put_width(link.width, out)
        }
    }
}

#[tactic(auto, unfolding(gb_states::specs::RelationSpelling::facts))]
fn put_facts(facts: &PairFacts, out: &mut Vec<u8>) -> Result<(), AllocError>
    ensures { OnOk result (out.new.items ≡ out.old.items ++ told.facts facts.now) }
{
    put(&word(facts.bounds.first), out)?;
    put(&word(facts.bounds.last), out)?;
    put_link(facts.link, out)
}

/// Adds what is known of a pair, where it is something.
fn put_known(facts: &PairFacts, out: &mut Vec<u8>) -> Result<(), AllocError>
    ensures { OnOk result (out.new.items ≡ out.old.items ++ told.known_facts facts.now) }
{
    if is_known(facts) {
        put_facts(facts, out)
    } else {
        Ok(())
    }
}

#[tactic(auto, unfolding(gb_states::specs::RelationSpelling::pairs))]
fn put_pairs(pairs: &Pairs, out: &mut Vec<u8>) -> Result<(), AllocError>
    ensures { OnOk result (out.new.items ≡ out.old.items ++ told.pairs pairs.now) }
{
    put_known(&pairs.bc, out)?;
    put_known(&pairs.de, out)?;
    put_known(&pairs.hl, out)
}

// ---- all of them

/// Adds the parts that there are; these bytes spell the one byte's place in memory.
pub(crate) fn put_parts(
    memory: &[u8],
    relations: &Relations,
    out: &mut Vec<u8>,
) -> Result<(), AllocError>
    ensures { OnOk result (out.new.items ≡ out.old.items ++ told.parts_by memory.now relations.now) }
{
    put_byte(memory, &relations.byte, out)?;
    put_pair(relations.zero, out)?;
    put_pairs(&relations.pairs, out)
}

#[tactic(auto, unfolding(gb_states::specs::RelationSpelling::relations))]
fn put_relations(relations: &Relations, out: &mut Vec<u8>) -> Result<(), AllocError>
    ensures { OnOk result (out.new.items ≡ out.old.items ++ told.relations relations.now) }
{
    let address = relations.byte.address;
    put(
        &[present_number(present_by(address.is_some(), relations))],
        out,
    )?;
    match address {
        None => put_parts(&[], relations, out),
        Some(address) => put_parts(&word(address), relations, out),
    }
}

/// Adds what is known of several parts together: nothing in versions 1 and 2.
pub(crate) fn put_relations_by(
    rules: Rules,
    relations: &Relations,
    out: &mut Vec<u8>,
) -> Result<(), AllocError>
    ensures { OnOk result (out.new.items ≡ out.old.items ++ told.relations_by rules relations.now) }
{
    match rules {
        Rules::Simple => Ok(()),
        Rules::Extended => put_relations(relations, out),
    }
}
