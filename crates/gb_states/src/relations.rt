//! Reading what a state says of several of its parts together.

ghost use Rattle.std.specs.Prelude.{◌≡◌, ◌∷◌, false, IfSome};
ghost use Rattle.gb_fields.specs.Format.{Gives, optional, byte};
ghost use Rattle.gb_domain.specs.Pairs.{nothing_known};
ghost use Rattle.gb_domain.specs.Places.{no_byte};
ghost use Rattle.gb_domain.specs.RelationRules.{is_known, compared_a, test_alone};
ghost use Rattle.gb_states.specs.Links.{reads_register, reads_other};
ghost use Rattle.gb_states.specs.RelationReading.{defaulted, is_present, present_at, to_registers, registers_at, address_at, is_stack_byte, item_address, is_item_number, item_at, is_somewhere, place_by, memory_at, test_of, byte_at, pair_of, pair_at, bounds_at, other_of, is_wide_form, is_form, other_at, form_at, factor_at, factor_of, width_at, link_of, link_at, facts_at, pairs_at, parts_at, no_items, relations_at, relations_by};

use crate::states::{is_free, is_in_ram};
use gb_domain::pairs::{Bounds, Link, NOTHING_KNOWN, Other, PairFacts, Pairs, WordPair};
use gb_domain::places::{NO_REGISTER, OneByte, StackBytes, Test, is_some_register};
use gb_domain::relations::Relations;
use gb_domain::types::Rules;
use gb_fields::CertFault;
use gb_fields::numbers::{byte, byte_between, word, word_between};
use gb_ops::machine::Region;
use gb_ops::op::Register;
use gb_ops::registers::Registers;

/// Which parts there are.
#[derive(Clone, Copy)]
pub struct Present {
    /// Places that hold one byte.
    pub byte: bool,
    /// An address among them.
    pub address: bool,
    /// The bits of a test.
    pub bits: bool,
    /// The pair that is 0 where Z is set.
    pub zero: bool,
    pub bc: bool,
    pub de: bool,
    pub hl: bool,
}

/// Where in memory one of the places lies.
#[derive(Clone, Copy)]
pub enum InMemory {
    Nowhere,
    /// At an address of RAM outside the stack region.
    Address,
    /// At that of an item.
    Item,
}

impl InMemory {
    /// By which bits are set: that of an item, and that of an address.
    pub fn by(item: bool, address: bool) -> InMemory
        ensures { result ≡ place_by item address }
    {
        if item {
            InMemory::Item
        } else if address {
            InMemory::Address
        } else {
            InMemory::Nowhere
        }
    }

    /// Whether there is one.
    fn is_somewhere(self) -> bool
        ensures { result ≡ is_somewhere self }
    {
        !matches!(self, InMemory::Nowhere)
    }
}

/// Which parts a link has.
#[derive(Clone, Copy)]
pub struct LinkForm {
    /// What it reads besides its pair and its base; none where there is no link.
    pub other: Option<Other>,
    pub has_base: bool,
    pub has_width: bool,
}

/// The low bits of the form of a link that reads a byte of RAM.
const CELL: u8 = 11;

// ---- which parts there are

/// Whether an address and a test are of one byte, and the test either compares or has bits.
fn is_present(test: Option<u8>, present: Present) -> bool
    ensures { result ≡ is_present test present }
{
    let needs_byte = present.address || test.is_some() || present.bits;
    (present.byte || !needs_byte) && !(test.is_some() && present.bits)
}

#[tactic(auto, unfolding(crate::specs::RelationReading::present_at))]
pub(crate) fn present_at(test: Option<u8>, bytes: &[u8]) -> Result<(Present, &[u8]), CertFault>
    ensures { Gives (λ x. (x.0, x.1.now)) result (present_at test bytes.now) }
{
    let (number, rest) = byte_between(0, 127, bytes)?;
    let present = Present {
        byte: number % 2 == 1,
        address: number / 2 % 2 == 1,
        bits: number / 4 % 2 == 1,
        zero: number / 8 % 2 == 1,
        bc: number / 16 % 2 == 1,
        de: number / 32 % 2 == 1,
        hl: number / 64 == 1,
    };
    if !is_present(test, present) {
        return Err(CertFault::Field);
    }
    Ok((present, rest))
}

// ---- places that hold one byte

/// Which registers are among the places, by bits 0 to 6.
#[inline(always)]
pub(crate) fn to_registers(number: u8) -> Registers<bool>
    ensures { result ≡ to_registers number }
{
    Registers {
        a: number % 2 == 1,
        b: number / 2 % 2 == 1,
        c: number / 4 % 2 == 1,
        d: number / 8 % 2 == 1,
        e: number / 16 % 2 == 1,
        h: number / 32 % 2 == 1,
        l: number / 64 == 1,
    }
}

/// The registers among the places, one at least where there is no place in memory.
#[tactic(auto, unfolding(crate::specs::RelationReading::registers_at))]
fn registers_at(in_memory: bool, bytes: &[u8]) -> Result<(Registers<bool>, &[u8]), CertFault>
    ensures { Gives (λ x. (x.0, x.1.now)) result (registers_at in_memory bytes.now) }
{
    let (number, rest) = byte_between(0, 127, bytes)?;
    let registers = to_registers(number);
    if !(in_memory || is_some_register(&registers)) {
        return Err(CertFault::Field);
    }
    Ok((registers, rest))
}

#[tactic(auto, unfolding(crate::specs::RelationReading::address_at))]
pub(crate) fn address_at(region: Region, bytes: &[u8]) -> Result<(u16, &[u8]), CertFault>
    ensures { Gives (λ x. (x.0, x.1.now)) result (address_at region bytes.now) }
{
    let (address, rest) = word(bytes)?;
    if !is_free(region, address, address) {
        return Err(CertFault::Field);
    }
    Ok((address, rest))
}

/// Whether the address lies in RAM and in the region.
fn is_stack_byte(region: Region, address: u16) -> bool
    ensures { result ≡ is_stack_byte region address }
{
    is_in_ram(address, address) && region.first <= address && address <= region.last
}

/// Where the item with this number lies.
fn item_address(base: u16, number: u8) -> u16
    ensures { result ≡ item_address base number }
{
    base.saturating_sub(1).saturating_sub(u16::from(number))
}

/// Whether there is an item with this number, and it lies in the region.
fn is_item_number(stack: StackBytes, number: u8) -> bool
    ensures { result ≡ is_item_number stack number }
{
    number < stack.count && is_stack_byte(stack.region, item_address(stack.base, number))
}

/// The address of an item, by its number.
#[tactic(auto, unfolding(crate::specs::RelationReading::item_at))]
pub(crate) fn item_at(stack: StackBytes, bytes: &[u8]) -> Result<(u16, &[u8]), CertFault>
    ensures { Gives (λ x. (x.0, x.1.now)) result (item_at stack bytes.now) }
{
    let (number, rest) = byte(bytes)?;
    if !is_item_number(stack, number) {
        return Err(CertFault::Field);
    }
    Ok((item_address(stack.base, number), rest))
}

/// The address of the place in memory, where there is one.
fn memory_at(
    stack: StackBytes,
    place: InMemory,
    bytes: &[u8],
) -> Result<(Option<u16>, &[u8]), CertFault>
    ensures { Gives (λ x. (x.0, x.1.now)) result (memory_at stack place bytes.now) }
{
    match place {
        InMemory::Nowhere => Ok((None, bytes)),
        InMemory::Address => {
            let (address, rest) = address_at(stack.region, bytes)?;
            Ok((Some(address), rest))
        }
        InMemory::Item => {
            let (address, rest) = item_at(stack, bytes)?;
            Ok((Some(address), rest))
        }
    }
}

/// What the state's test says of the byte, or else the bits.
fn test_of(test: Option<u8>, bits: Option<u8>) -> Option<Test>
    ensures { result ≡ test_of test bits }
{
    match test {
        Some(value) => Some(Test::Compare(value)),
        None => bits.map(Test::Bits),
    }
}

/// The address among the places, where it is there.
pub(crate) fn address_where(
    there: bool,
    region: Region,
    bytes: &[u8],
) -> Result<(Option<u16>, &[u8]), CertFault>
    ensures { Gives (λ x. (x.0, x.1.now)) result (optional there (address_at region) bytes.now) }
{
    if !there {
        return Ok((None, bytes));
    }
    let (address, rest) = address_at(region, bytes)?;
    Ok((Some(address), rest))
}

/// The bits of a test, where they are there.
fn bits_where(there: bool, bytes: &[u8]) -> Result<(Option<u8>, &[u8]), CertFault>
    ensures { Gives (λ x. (x.0, x.1.now)) result (optional there byte bytes.now) }
{
    if !there {
        return Ok((None, bytes));
    }
    let (bits, rest) = byte(bytes)?;
    Ok((Some(bits), rest))
}

#[tactic(auto, unfolding(crate::specs::RelationReading::byte_at))]
fn byte_at(
    stack: StackBytes,
    test: Option<u8>,
    place: InMemory,
    bits: bool,
    bytes: &[u8],
) -> Result<(OneByte, &[u8]), CertFault>
    ensures { Gives (λ x. (x.0, x.1.now)) result (byte_at stack test place bits bytes.now) }
{
    let (registers, rest) = registers_at(place.is_somewhere(), bytes)?;
    let (address, rest) = memory_at(stack, place, rest)?;
    let (bits, rest) = bits_where(bits, rest)?;
    let byte = OneByte {
        registers,
        address,
        test: test_of(test, bits),
    };
    Ok((byte, rest))
}

/// The places that hold one byte, where they are there.
fn byte_where(
    stack: StackBytes,
    test: Option<u8>,
    place: InMemory,
    present: Present,
    bytes: &[u8],
) -> Result<(OneByte, &[u8]), CertFault>
    ensures { Gives (λ x. (x.0, x.1.now)) result (defaulted no_byte present.byte (byte_at stack test place present.bits) bytes.now) }
{
    if present.byte {
        byte_at(stack, test, place, present.bits, bytes)
    } else {
        Ok((OneByte::default(), bytes))
    }
}

// ---- pairs

fn pair_of(number: u8) -> WordPair
    ensures { result ≡ pair_of number }
{
    match number {
        0 => WordPair::Bc,
        1 => WordPair::De,
        _ => WordPair::Hl,
    }
}

#[tactic(auto, unfolding(crate::specs::RelationReading::pair_at))]
fn pair_at(bytes: &[u8]) -> Result<(WordPair, &[u8]), CertFault>
    ensures { Gives (λ x. (x.0, x.1.now)) result (pair_at bytes.now) }
{
    let (number, rest) = byte_between(0, 2, bytes)?;
    Ok((pair_of(number), rest))
}

/// The pair that is 0 where Z is set, or a link's base, where it is there.
fn pair_where(there: bool, bytes: &[u8]) -> Result<(Option<WordPair>, &[u8]), CertFault>
    ensures { Gives (λ x. (x.0, x.1.now)) result (optional there pair_at bytes.now) }
{
    if !there {
        return Ok((None, bytes));
    }
    let (pair, rest) = pair_at(bytes)?;
    Ok((Some(pair), rest))
}

#[tactic(auto, unfolding(crate::specs::RelationReading::bounds_at))]
pub(crate) fn bounds_at(bytes: &[u8]) -> Result<(Bounds, &[u8]), CertFault>
    ensures { Gives (λ x. (x.0, x.1.now)) result (bounds_at bytes.now) }
{
    let (first, rest) = word(bytes)?;
    let (last, rest) = word(rest)?;
    if first > last {
        return Err(CertFault::Field);
    }
    Ok((Bounds { first, last }, rest))
}

/// What else a link reads, where that has no address.
fn other_of(number: u8) -> Option<Other>
    ensures { result ≡ other_of number }
{
    match number {
        0 => None,
        1 => Some(Other::Register(Register::A)),
        2 => Some(Other::Register(Register::B)),
        3 => Some(Other::Register(Register::C)),
        4 => Some(Other::Register(Register::D)),
        5 => Some(Other::Register(Register::E)),
        6 => Some(Other::Register(Register::H)),
        7 => Some(Other::Register(Register::L)),
        8 => Some(Other::Pair(WordPair::Bc)),
        9 => Some(Other::Pair(WordPair::De)),
        10 => Some(Other::Pair(WordPair::Hl)),
        _ => Some(Other::Nothing),
    }
}

/// Whether a link of version 4 has this form: what reads nothing else has a base. Of an item (12) there is no form.
fn is_wide_form(number: u8) -> bool
    ensures { result ≡ is_wide_form number }
{
    let other = number % 64;
    1 <= other && other <= CELL || other == 13 && number / 64 % 2 == 1
}

/// Whether there is such a form, where links may have a base and a width or may not; 0 where there is no link.
fn is_form(wide: bool, number: u8) -> bool
    ensures { result ≡ is_form wide number }
{
    number <= 10 || wide && is_wide_form(number)
}

/// What else a link reads, by the low bits of its form; the address of a byte of RAM comes after the form.
fn other_at(region: Region, number: u8, bytes: &[u8]) -> Result<(Option<Other>, &[u8]), CertFault>
    ensures { Gives (λ x. (x.0, x.1.now)) result (other_at region number bytes.now) }
{
    if number == CELL {
        let (address, rest) = address_at(region, bytes)?;
        Ok((Some(Other::Cell(address)), rest))
    } else {
        Ok((other_of(number), bytes))
    }
}

#[tactic(auto, unfolding(crate::specs::RelationReading::form_at))]
fn form_at(wide: bool, region: Region, bytes: &[u8]) -> Result<(LinkForm, &[u8]), CertFault>
    ensures { Gives (λ x. (x.0, x.1.now)) result (form_at wide region bytes.now) }
{
    let (number, rest) = byte(bytes)?;
    if !is_form(wide, number) {
        return Err(CertFault::Field);
    }
    let (other, rest) = other_at(region, number % 64, rest)?;
    let form = LinkForm {
        other,
        has_base: number / 64 % 2 == 1,
        has_width: 128 <= number,
    };
    Ok((form, rest))
}

/// Whether a link reads a register or another pair.
pub fn reads_register(other: Other) -> bool
    ensures { result ≡ reads_register other }
{
    matches!(other, Other::Register(_) | Other::Pair(_))
}

/// Whether a link reads something besides its pair and its base.
pub fn reads_other(other: Other) -> bool
    ensures { result ≡ reads_other other }
{
    !matches!(other, Other::Nothing)
}

/// A factor, which is spelled in two's complement, modulo 65,536.
#[tactic(auto, unfolding(crate::specs::RelationReading::factor_at))]
fn factor_at(bytes: &[u8]) -> Result<(u16, &[u8]), CertFault>
    ensures { Gives (λ x. (x.0, x.1.now)) result (factor_at bytes.now) }
{
    let (number, rest) = byte_between(1, 255, bytes)?;
    let factor = if number < 128 {
        number as u16
    } else {
        number as u16 + 0xFF00
    };
    Ok((factor, rest))
}

/// The factor of what is read, 1 where that is nothing.
fn factor_of(other: Other, bytes: &[u8]) -> Result<(u16, &[u8]), CertFault>
    ensures { Gives (λ x. (x.0, x.1.now)) result (factor_of other bytes.now) }
{
    if reads_other(other) {
        factor_at(bytes)
    } else {
        Ok((1, bytes))
    }
}

/// A width, where it is spelled.
#[tactic(auto, unfolding(crate::specs::RelationReading::width_at))]
fn width_where(there: bool, bytes: &[u8]) -> Result<(u16, &[u8]), CertFault>
    ensures { Gives (λ x. (x.0, x.1.now)) result (defaulted 0 there width_at bytes.now) }
{
    if there {
        word_between(1, 0xFFFF, bytes)
    } else {
        Ok((0, bytes))
    }
}

/// A link, where there is one: its factor, its base, its sum and its width, after its form.
fn link_of(form: LinkForm, bytes: &[u8]) -> Result<(Option<Link>, &[u8]), CertFault>
    ensures { Gives (λ x. (x.0, x.1.now)) result (link_of form.other form.has_base form.has_width bytes.now) }
{
    let Some(other) = form.other else {
        return Ok((None, bytes));
    };
    let (factor, rest) = factor_of(other, bytes)?;
    let (base, rest) = pair_where(form.has_base, rest)?;
    let (sum, rest) = word(rest)?;
    let (width, rest) = width_where(form.has_width, rest)?;
    let link = Link {
        other,
        factor,
        base,
        sum,
        width,
    };
    Ok((Some(link), rest))
}

#[tactic(auto, unfolding(crate::specs::RelationReading::link_at))]
fn link_at(wide: bool, region: Region, bytes: &[u8]) -> Result<(Option<Link>, &[u8]), CertFault>
    ensures { Gives (λ x. (x.0, x.1.now)) result (link_at wide region bytes.now) }
{
    let (form, rest) = form_at(wide, region, bytes)?;
    link_of(form, rest)
}

/// Whether a pair isn't any word, or has a link.
fn is_known(facts: PairFacts) -> bool
    ensures { result ≡ is_known facts }
{
    facts.link.is_some() || !(facts.bounds.first == 0 && facts.bounds.last == 0xFFFF)
}

#[tactic(auto, unfolding(crate::specs::RelationReading::facts_at))]
fn facts_at(wide: bool, region: Region, bytes: &[u8]) -> Result<(PairFacts, &[u8]), CertFault>
    ensures { Gives (λ x. (x.0, x.1.now)) result (facts_at wide region bytes.now) }
{
    let (bounds, rest) = bounds_at(bytes)?;
    let (link, rest) = link_at(wide, region, rest)?;
    let facts = PairFacts { bounds, link };
    if !is_known(facts) {
        return Err(CertFault::Field);
    }
    Ok((facts, rest))
}

/// What is known of a pair, where it is there.
fn facts_where(
    wide: bool,
    region: Region,
    there: bool,
    bytes: &[u8],
) -> Result<(PairFacts, &[u8]), CertFault>
    ensures { Gives (λ x. (x.0, x.1.now)) result (defaulted nothing_known there (facts_at wide region) bytes.now) }
{
    if there {
        facts_at(wide, region, bytes)
    } else {
        Ok((NOTHING_KNOWN, bytes))
    }
}

#[tactic(auto, unfolding(crate::specs::RelationReading::pairs_at))]
fn pairs_at(
    wide: bool,
    region: Region,
    present: Present,
    bytes: &[u8],
) -> Result<(Pairs, &[u8]), CertFault>
    ensures { Gives (λ x. (x.0, x.1.now)) result (pairs_at wide region present bytes.now) }
{
    let (bc, rest) = facts_where(wide, region, present.bc, bytes)?;
    let (de, rest) = facts_where(wide, region, present.de, rest)?;
    let (hl, rest) = facts_where(wide, region, present.hl, rest)?;
    Ok((Pairs { bc, de, hl }, rest))
}

// ---- all of them

/// One byte's places, what is zero, and the pairs.
pub(crate) type Parts = (OneByte, (Option<WordPair>, Pairs));

/// Those parts that there are; links may have a base and a width or may not, the test is the state's, and the one byte's place in
/// memory is this.
pub(crate) fn parts_at(
    wide: bool,
    stack: StackBytes,
    test: Option<u8>,
    place: InMemory,
    present: Present,
    bytes: &[u8],
) -> Result<(Parts, &[u8]), CertFault>
    ensures { Gives (λ x. (x.0, x.1.now)) result (parts_at wide stack test place present bytes.now) }
{
    let (byte, rest) = byte_where(stack, test, place, present, bytes)?;
    let (zero, rest) = pair_where(present.zero, rest)?;
    let (pairs, rest) = pairs_at(wide, stack.region, present, rest)?;
    Ok(((byte, (zero, pairs)), rest))
}

/// The stack of a state of versions 1 to 3, which name no items.
fn no_items(region: Region) -> StackBytes
    ensures { result ≡ no_items region }
{
    StackBytes {
        region,
        base: 0,
        count: 0,
    }
}

/// Those parts that there are in versions 1 to 3, in which the place in memory is an address.
fn older_parts_at(
    region: Region,
    test: Option<u8>,
    present: Present,
    bytes: &[u8],
) -> Result<(Parts, &[u8]), CertFault>
    ensures { Gives (λ x. (x.0, x.1.now)) result (parts_at false (no_items region) test (place_by false present.address) present bytes.now) }
{
    let place = InMemory::by(false, present.address);
    parts_at(false, no_items(region), test, place, present, bytes)
}

/// What is known of several parts of a state together; the test is the state's.
#[inline(never)]
#[tactic(auto, unfolding(crate::specs::RelationReading::relations_at))]
pub fn relations_at(
    region: Region,
    test: Option<u8>,
    bytes: &[u8],
) -> Result<(Relations, &[u8]), CertFault>
    ensures { Gives (λ x. (x.0, x.1.now)) result (relations_at region test bytes.now) }
{
    let (present, rest) = present_at(test, bytes)?;
    let ((byte, (zero, pairs)), rest) = older_parts_at(region, test, present, rest)?;
    Ok((Relations { byte, zero, pairs }, rest))
}

/// A's byte, compared with one.
#[inline(always)]
fn compared_a(value: u8) -> OneByte
    ensures { result ≡ compared_a value }
{
    OneByte {
        registers: Registers {
            a: true,
            ..NO_REGISTER
        },
        address: None,
        test: Some(Test::Compare(value)),
    }
}

/// What a state that has this test, and nothing else, knows of several parts together.
#[inline(always)]
pub fn test_alone(test: Option<u8>) -> Relations
    ensures { result ≡ test_alone test }
{
    let byte = match test {
        None => OneByte::default(),
        Some(value) => compared_a(value),
    };
    Relations {
        byte,
        zero: None,
        pairs: Pairs::default(),
    }
}

/// What stands behind the number of no part, if that comes first.
#[inline(always)]
fn behind_nothing(bytes: &[u8]) -> Option<&[u8]>
    ensures { IfSome result (λ rest. bytes.now ≡ 0 ∷ rest.now) }
{
    match bytes {
        [0, rest @ ..] => Some(rest),
        _ => None,
    }
}

/// What is known of several parts of a state together: in versions 1 and 2 the test alone. Where nothing is known, that is seen at
/// the first byte.
#[inline(always)]
#[tactic(auto, unfolding(crate::specs::RelationReading::relations_at, crate::specs::RelationReading::present_at, crate::specs::RelationReading::pairs_at))]
pub fn relations_by(
    rules: Rules,
    region: Region,
    test: Option<u8>,
    bytes: &[u8],
) -> Result<(Relations, &[u8]), CertFault>
    ensures { Gives (λ x. (x.0, x.1.now)) result (relations_by rules region test bytes.now) }
{
    match rules {
        Rules::Simple => Ok((test_alone(test), bytes)),
        Rules::Extended => match (test, behind_nothing(bytes)) {
            (None, Some(rest)) => Ok((Relations::default(), rest)),
            _ => relations_at(region, test, bytes),
        },
    }
}
