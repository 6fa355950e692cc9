//! What a state says of several of its parts together, in the bytes of version 4.

ghost use Rattle.std.specs.Prelude.{◌≡◌, ◌≤◌, ◌+◌, ◌∷◌, ◌++◌, List, ℕ, length};
ghost use Rattle.arrayvec.specs.ArrayVec.{array_vec_len};
ghost use Rattle.gb_domain.specs.RelationRules.{has_place, bits_of, is_known};
ghost use Rattle.gb_command_line.specs.Below.gb_verify.Below.gb_states.Numbers as number;
ghost use Rattle.gb_command_line.specs.Below.gb_verify.Below.gb_states.RelationSpelling as told;

use arrayvec::ArrayVec;
use gb_domain::pairs::{Link, Other, PairFacts, Pairs, WordPair};
use gb_domain::places::{OneByte, Test, has_place};
use gb_domain::relations::Relations;
use gb_ops::op::Register;
use gb_ops::registers::Registers;

/// The bytes of a node or a procedure.
pub type Text = ArrayVec<u8, 1217>;

/// Adds bytes, for which there is room.
pub fn push(bytes: &[u8], out: &mut Text)
    requires { array_vec_len out.old + length bytes.now ≤ 1217 }
    ensures text { out.new.items ≡ out.old.items ++ bytes.now }
    ensures long { array_vec_len out.new ≡ array_vec_len out.old + length bytes.now }
{
    if out.try_extend_from_slice(bytes).is_err() {
        unreachable!();
    }
}

/// A word, its low byte first.
pub fn word(word: u16) -> [u8; 2]
    ensures { result ≡ number.word word }
{
    [(word % 256) as u8, (word / 256) as u8]
}

/// 1 for yes, 0 for no.
pub fn flag(is_set: bool) -> u8
    ensures value { result ≡ number.flag is_set }
    ensures bit { result ≤ 1 }
{
    u8::from(is_set)
}

// ---- which parts there are

fn bits_of(test: Option<Test>) -> Option<u8>
    ensures { result ≡ bits_of test }
{
    match test {
        Some(Test::Bits(bits)) => Some(bits),
        _ => None,
    }
}

fn is_known(facts: &PairFacts) -> bool
    ensures { result ≡ is_known facts.now }
{
    facts.link.is_some() || !(facts.bounds.first == 0 && facts.bounds.last == 0xFFFF)
}

/// Which parts there are, a bit for each.
fn present_number(relations: &Relations) -> u8
    ensures { result ≡ told.present_number (told.present_in relations.now) }
{
    64 * flag(is_known(&relations.pairs.hl))
        + 32 * flag(is_known(&relations.pairs.de))
        + 16 * flag(is_known(&relations.pairs.bc))
        + 8 * flag(relations.zero.is_some())
        + 4 * flag(bits_of(relations.byte.test).is_some())
        + 2 * flag(relations.byte.address.is_some())
        + flag(has_place(&relations.byte))
}

// ---- places that hold one byte

fn registers_number(registers: &Registers<bool>) -> u8
    ensures { result ≡ told.registers_number registers.now }
{
    64 * flag(registers.l)
        + 32 * flag(registers.h)
        + 16 * flag(registers.e)
        + 8 * flag(registers.d)
        + 4 * flag(registers.c)
        + 2 * flag(registers.b)
        + flag(registers.a)
}

/// Adds an address, where there is one.
fn push_address(address: Option<u16>, out: &mut Text)
    requires { array_vec_len out.old ≤ 1209 }
    ensures text { out.new.items ≡ out.old.items ++ told.optional number.word address }
    ensures room { array_vec_len out.new ≤ array_vec_len out.old + 2 }
{
    if let Some(address) = address {
        push(&word(address), out);
    }
}

/// Adds bits, where there are some.
fn push_bits(bits: Option<u8>, out: &mut Text)
    requires { array_vec_len out.old ≤ 1210 }
    ensures text { out.new.items ≡ out.old.items ++ told.optional told.byte bits }
    ensures room { array_vec_len out.new ≤ array_vec_len out.old + 1 }
{
    if let Some(bits) = bits {
        push(&[bits], out);
    }
}

/// Adds the places that hold one byte.
#[tactic(auto, unfolding(crate::specs::Opened::places_by))]
fn push_places(byte: &OneByte, out: &mut Text)
    requires { array_vec_len out.old ≤ 1207 }
    ensures text { out.new.items ≡ out.old.items ++ told.places_by (told.optional number.word byte.now.address) byte.now }
    ensures room { array_vec_len out.new ≤ array_vec_len out.old + 4 }
{
    push(&[registers_number(&byte.registers)], out);
    push_address(byte.address, out);
    push_bits(bits_of(byte.test), out);
}

/// Adds them where there are some.
fn push_byte(byte: &OneByte, out: &mut Text)
    requires { array_vec_len out.old ≤ 1207 }
    ensures text { out.new.items ≡ out.old.items ++ told.where_there (has_place byte.now) (told.places_by (told.optional number.word byte.now.address) byte.now) }
    ensures room { array_vec_len out.new ≤ array_vec_len out.old + 4 }
{
    if has_place(byte) {
        push_places(byte, out);
    }
}

// ---- pairs

fn pair_number(pair: WordPair) -> u8
    ensures exact { result ≡ told.pair_number pair }
    ensures few { result ≤ 2 }
{
    match pair {
        WordPair::Bc => 0,
        WordPair::De => 1,
        WordPair::Hl => 2,
    }
}

/// Adds the pair that is 0 where Z is set, or a link's base, where there is one.
fn push_pair(pair: Option<WordPair>, out: &mut Text)
    requires { array_vec_len out.old ≤ 1216 }
    ensures text { out.new.items ≡ out.old.items ++ told.optional told.pair pair }
    ensures room { array_vec_len out.new ≤ array_vec_len out.old + 1 }
{
    if let Some(pair) = pair {
        push(&[pair_number(pair)], out);
    }
}

fn other_number(other: Other) -> u8
    ensures exact { result ≡ told.other_number other }
    ensures few { result ≤ 12 }
{
    match other {
        Other::Register(Register::A) => 0,
        Other::Register(Register::B) => 1,
        Other::Register(Register::C) => 2,
        Other::Register(Register::D) => 3,
        Other::Register(Register::E) => 4,
        Other::Register(Register::H) => 5,
        Other::Register(Register::L) => 6,
        Other::Pair(pair) => 7 + pair_number(pair),
        Other::Cell(_) => 10,
        Other::Nothing => 12,
    }
}

/// Adds the address of a byte of RAM, where one is read.
fn push_argument(other: Other, out: &mut Text)
    requires { array_vec_len out.old ≤ 1215 }
    ensures text { out.new.items ≡ out.old.items ++ told.argument other }
    ensures room { array_vec_len out.new ≤ array_vec_len out.old + 2 }
{
    if let Other::Cell(address) = other {
        push(&word(address), out);
    }
}

/// Adds a width, where it is one.
fn push_width(width: u16, out: &mut Text)
    requires { array_vec_len out.old ≤ 1215 }
    ensures text { out.new.items ≡ out.old.items ++ told.width width }
    ensures room { array_vec_len out.new ≤ array_vec_len out.old + 2 }
{
    if width != 0 {
        push(&word(width), out);
    }
}

/// Adds the factor of what is read, where that is something.
fn push_factor(other: Other, factor: u16, out: &mut Text)
    requires { array_vec_len out.old ≤ 1216 }
    ensures text { out.new.items ≡ out.old.items ++ told.factor other factor }
    ensures room { array_vec_len out.new ≤ array_vec_len out.old + 1 }
{
    if !matches!(other, Other::Nothing) {
        push(&[(factor % 256) as u8], out);
    }
}

/// A link's form: what else it reads, 64 more where it has a base, and 128 more where it has a width.
fn form_number(link: &Link) -> u8
    ensures { result ≡ told.form_number link.now }
{
    128 * flag(link.width != 0) + (64 * flag(link.base.is_some()) + (1 + other_number(link.other)))
}

/// Adds a link's form, the address of what it reads of RAM, its factor, its base, its sum and its width; 0 if there is no link.
fn push_link(link: Option<Link>, out: &mut Text)
    requires { array_vec_len out.old ≤ 1208 }
    ensures text { out.new.items ≡ out.old.items ++ told.link link }
    ensures room { array_vec_len out.new ≤ array_vec_len out.old + 9 }
{
    match link {
        None => push(&[0], out),
        Some(link) => {
            push(&[form_number(&link)], out);
            push_argument(link.other, out);
            push_factor(link.other, link.factor, out);
            push_pair(link.base, out);
            push(&word(link.sum), out);
            push_width(link.width, out);
        }
    }
}

#[tactic(auto, unfolding(crate::specs::Opened::facts))]
fn push_facts(facts: &PairFacts, out: &mut Text)
    requires { array_vec_len out.old ≤ 1204 }
    ensures text { out.new.items ≡ out.old.items ++ told.facts facts.now }
    ensures room { array_vec_len out.new ≤ array_vec_len out.old + 13 }
{
    push(&word(facts.bounds.first), out);
    push(&word(facts.bounds.last), out);
    push_link(facts.link, out);
}

/// Adds what is known of a pair, where it is something.
fn push_known(facts: &PairFacts, out: &mut Text)
    requires { array_vec_len out.old ≤ 1204 }
    ensures text { out.new.items ≡ out.old.items ++ told.known_facts facts.now }
    ensures room { array_vec_len out.new ≤ array_vec_len out.old + 13 }
{
    if is_known(facts) {
        push_facts(facts, out);
    }
}

#[tactic(auto, unfolding(crate::specs::Opened::pairs))]
fn push_pairs(pairs: &Pairs, out: &mut Text)
    requires { array_vec_len out.old ≤ 1178 }
    ensures text { out.new.items ≡ out.old.items ++ told.pairs pairs.now }
    ensures room { array_vec_len out.new ≤ array_vec_len out.old + 39 }
{
    push_known(&pairs.bc, out);
    push_known(&pairs.de, out);
    push_known(&pairs.hl, out);
}

// ---- all of them

/// Adds the parts that there are.
fn push_parts(relations: &Relations, out: &mut Text)
    requires { array_vec_len out.old ≤ 1173 }
    ensures text { out.new.items ≡ out.old.items ++ told.parts relations.now }
    ensures room { array_vec_len out.new ≤ array_vec_len out.old + 44 }
{
    push_byte(&relations.byte, out);
    push_pair(relations.zero, out);
    push_pairs(&relations.pairs, out);
}

/// Adds which parts there are, a byte that is 0 where nothing is said of the whole program, and then the parts.
pub fn push_told(relations: &Relations, out: &mut Text)
    requires { array_vec_len out.old ≤ 1171 }
    ensures text { out.new.items ≡ out.old.items ++ told.present_number (told.present_in relations.now) ∷ 0 ∷ told.parts relations.now }
    ensures room { array_vec_len out.new ≤ array_vec_len out.old + 46 }
{
    push(&[present_number(relations), 0], out);
    push_parts(relations, out);
}
