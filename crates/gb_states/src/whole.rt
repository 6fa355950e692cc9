//! Reading the fields of version 4, which speaks of whole programs.

ghost use Rattle.std.specs.Prelude.{◌≡◌, ◌≤◌, IfOk};
ghost use Rattle.gb_fields.specs.Format.{Gives, GivesUnlessMemory, mapped, optional, several};
ghost use Rattle.gb_fields.specs.Limits.{fill_limit, kept_limit, kept_room};
ghost use Rattle.gb_domain.specs.Summaries.{no_bank_shadows};
ghost use Rattle.gb_states.specs.RelationReading.{defaulted, address_at, bounds_at};
ghost use Rattle.gb_states.specs.WholeRules.{says_something, is_stepped, after_address};
ghost use Rattle.gb_states.specs.WholeReading.{is_origin_number, val_at, kept_at, stretch_at, said_at, is_strided_interval, interval_at, fact_at, facts_at, pointer_of, reach_of, end_of, end_at, fill_at, fill_count_at, levels_at, to_shadows, has_address, shadows_at, others_at, bank_shadows_at, may_be_declared, declared_at, no_levels, summary_at, free_address_at, kept_addresses_at};

use crate::fields::origin_of;
use crate::relations::{address_at, address_where, bounds_at, to_registers};
use crate::states::is_free;
use arrayvec::ArrayVec;
use gb_domain::interval::StridedInterval;
use gb_domain::low_bits::are_congruent;
use gb_domain::pairs::Bounds;
use gb_domain::summary::{
    BankShadows, Fact, Fill, FillEnd, Reach, Shadows, Summary, is_unshadowed,
};
use gb_domain::types::{KeptBanks, Val};
use gb_domain::values::interval_of;
use gb_fields::CertFault;
use gb_fields::limits::{FACT_LIMIT, FILL_LIMIT, KEPT_LIMIT};
use gb_fields::numbers::{
    byte, byte_between, count_within, offset_at, word, word_between, word_count_within,
};
use gb_ops::machine::Region;
use gb_ops::op::Pointer;
use std::alloc::Global;

/// The bytes of a fact.
const FACT: usize = 8;

/// Which parts there are of what a state says that is about the whole program.
#[derive(Clone, Copy)]
pub struct Declared {
    /// Places that shadow the controller's registers.
    pub shadows: bool,
    /// How many facts hold, and fills.
    pub levels: bool,
    /// Where SP points while the stack is put aside.
    pub aside: bool,
    /// An item among the places of the one byte.
    pub item: bool,
}

// ---- values

/// Whether this is the number of an origin, or 0, where a procedure names so many addresses to be kept.
fn is_origin_number(kept: u8, number: u8) -> bool
    ensures { result ≡ is_origin_number kept number }
{
    (number as u16) < 12 + kept as u16 || number == 28 || number == 29
}

/// Whether at most seven low bits are known, and both ends have them.
fn is_strided(interval: StridedInterval) -> bool
    ensures { result ≡ is_strided_interval interval }
{
    match interval.count {
        0 => true,
        count => {
            let is_common = are_congruent(count, interval.hi.into(), interval.lo.into());
            count <= 7 && interval.lo < interval.hi && is_common
        }
    }
}

/// A value, of a procedure that names so many addresses to be kept.
#[tactic(auto, unfolding(crate::specs::WholeReading::val_at))]
pub fn val_at(kept: u8, bytes: &[u8]) -> Result<(Val, &[u8]), CertFault>
    ensures { Gives (λ x. (x.0, x.1.now)) result (val_at kept bytes.now) }
{
    let (lo, rest) = byte(bytes)?;
    let (hi, rest) = byte(rest)?;
    if lo > hi {
        return Err(CertFault::Field);
    }
    let (tag, rest) = byte(rest)?;
    if !is_origin_number(kept, tag % 32) {
        return Err(CertFault::Field);
    }
    let val = Val {
        lo,
        hi,
        low_bits: tag / 32,
        origin: origin_of(tag % 32),
    };
    if !is_strided(interval_of(val)) {
        return Err(CertFault::Field);
    }
    Ok((val, rest))
}

/// Which registers of the controller are kept.
#[tactic(auto, unfolding(crate::specs::WholeReading::kept_at))]
pub fn kept_at(bytes: &[u8]) -> Result<(KeptBanks, &[u8]), CertFault>
    ensures { Gives (λ x. (x.0, x.1.now)) result (kept_at bytes.now) }
{
    let (bits, rest) = byte_between(0, 31, bytes)?;
    let kept = KeptBanks {
        bank: bits % 2 == 1,
        second: bits / 2 % 2 == 1,
        gate: bits / 4 % 2 == 1,
        mode: bits / 8 % 2 == 1,
        high_bank: bits / 16 % 2 == 1,
    };
    Ok((kept, rest))
}

// ---- facts and fills

/// The first and the last address of RAM outside the region.
#[tactic(auto, unfolding(crate::specs::WholeReading::stretch_at))]
fn stretch_at(region: Region, bytes: &[u8]) -> Result<((u16, u16), &[u8]), CertFault>
    ensures { Gives (λ x. (x.0, x.1.now)) result (stretch_at region bytes.now) }
{
    let (first, rest) = word(bytes)?;
    let (last, rest) = word(rest)?;
    if !is_free(region, first, last) {
        return Err(CertFault::Field);
    }
    Ok(((first, last), rest))
}

/// Whether some byte is left out.
fn says_something(lo: u8, hi: u8) -> bool
    ensures { result ≡ says_something lo hi }
{
    !(lo == 0 && hi == 255)
}

/// Bytes in order that leave one out.
#[tactic(auto, unfolding(crate::specs::WholeReading::said_at))]
fn said_at(bytes: &[u8]) -> Result<((u8, u8), &[u8]), CertFault>
    ensures { Gives (λ x. (x.0, x.1.now)) result (said_at bytes.now) }
{
    let (lo, rest) = byte(bytes)?;
    let (hi, rest) = byte(rest)?;
    if !(lo <= hi && says_something(lo, hi)) {
        return Err(CertFault::Field);
    }
    Ok(((lo, hi), rest))
}

/// Bounds, and how many low bits are known.
#[tactic(auto, unfolding(crate::specs::WholeReading::interval_at))]
fn interval_at(bytes: &[u8]) -> Result<(StridedInterval, &[u8]), CertFault>
    ensures { Gives (λ x. (x.0, x.1.now)) result (interval_at bytes.now) }
{
    let ((lo, hi), rest) = said_at(bytes)?;
    let (count, rest) = byte(rest)?;
    let interval = StridedInterval { lo, hi, count };
    if !is_strided(interval) {
        return Err(CertFault::Field);
    }
    Ok((interval, rest))
}

/// Whether steps lead from the first address to the last.
fn is_stepped(first: u16, last: u16, step: u8) -> bool
    ensures { result ≡ is_stepped first last step }
{
    step != 0 && last.saturating_sub(first) % step as u16 == 0
}

/// A fact: addresses by steps, and an interval that their bytes lie in.
#[tactic(auto, unfolding(crate::specs::WholeReading::fact_at))]
pub fn fact_at(region: Region, bytes: &[u8]) -> Result<(Fact, &[u8]), CertFault>
    ensures { Gives (λ x. (x.0, x.1.now)) result (fact_at region bytes.now) }
{
    let ((first, last), rest) = stretch_at(region, bytes)?;
    let (step, rest) = byte(rest)?;
    if !is_stepped(first, last, step) {
        return Err(CertFault::Field);
    }
    let (value, rest) = interval_at(rest)?;
    let fact = Fact {
        first,
        last,
        step,
        value,
    };
    Ok((fact, rest))
}

/// Reads so many facts.
fn some_facts(
    alloc: Global,
    region: Region,
    count: u16,
    bytes: &[u8],
) -> Result<(Vec<Fact>, &[u8]), CertFault>
    ensures { GivesUnlessMemory (λ x. (x.0.items, x.1.now)) result (several {S = Unit {0}} (λ s. fact_at region) (λ f. tt) tt count bytes.now) }
{
    // No more room than the bytes can have facts.
    let room = (count as usize).min(bytes.len() / FACT);
    let mut facts = Vec::with_capacity(alloc, room)?;
    let mut rest = bytes;
    for _ in 0..count {
        let (fact, after) = fact_at(region, rest)?;
        facts.push(fact)?;
        rest = after;
    }
    Ok((facts, rest))
}

/// What a certificate says of RAM for the whole program.
#[tactic(auto, unfolding(crate::specs::WholeReading::facts_at))]
pub fn facts_at(
    alloc: Global,
    region: Region,
    bytes: &[u8],
) -> Result<(Vec<Fact>, &[u8]), CertFault>
    ensures { GivesUnlessMemory (λ x. (x.0.items, x.1.now)) result (facts_at region bytes.now) }
{
    let (count, rest) = word_count_within(FACT_LIMIT, bytes)?;
    some_facts(alloc, region, count, rest)
}

fn pointer_of(number: u8) -> Pointer
    ensures { result ≡ pointer_of number }
{
    match number % 4 {
        1 => Pointer::Bc,
        2 => Pointer::De,
        3 => Pointer::Hl,
        _ => Pointer::HighC,
    }
}

fn reach_of(number: u8) -> Reach
    ensures { result ≡ reach_of number }
{
    if number < 5 {
        Reach::Below
    } else {
        Reach::Above
    }
}

/// No end, or its distance behind its number.
fn end_of(number: u8, bytes: &[u8]) -> Result<(Option<FillEnd>, &[u8]), CertFault>
    ensures { Gives (λ x. (x.0, x.1.now)) result (end_of number bytes.now) }
{
    if number == 0 {
        return Ok((None, bytes));
    }
    let (offset, rest) = offset_at(bytes)?;
    let end = FillEnd {
        pointer: pointer_of(number),
        reach: reach_of(number),
        offset,
    };
    Ok((Some(end), rest))
}

#[tactic(auto, unfolding(crate::specs::WholeReading::end_at))]
fn end_at(bytes: &[u8]) -> Result<(Option<FillEnd>, &[u8]), CertFault>
    ensures { Gives (λ x. (x.0, x.1.now)) result (end_at bytes.now) }
{
    let (number, rest) = byte_between(0, 8, bytes)?;
    end_of(number, rest)
}

#[tactic(auto, unfolding(crate::specs::WholeReading::fill_at))]
pub fn fill_at(region: Region, bytes: &[u8]) -> Result<(Fill, &[u8]), CertFault>
    ensures { Gives (λ x. (x.0, x.1.now)) result (fill_at region bytes.now) }
{
    let ((first, last), rest) = stretch_at(region, bytes)?;
    let (end, rest) = end_at(rest)?;
    let ((lo, hi), rest) = said_at(rest)?;
    let fill = Fill {
        first,
        last,
        lo,
        hi,
        end,
    };
    Ok((fill, rest))
}

/// How many fills there are behind a level.
#[tactic(auto, unfolding(crate::specs::WholeReading::fill_count_at))]
fn fill_count_at(level: u16, bytes: &[u8]) -> Result<(u8, &[u8]), CertFault>
    ensures exact { Gives (λ x. (x.0, x.1.now)) result (fill_count_at level bytes.now) }
    ensures few { IfOk result (λ x. x.0 ≤ fill_limit) }
{
    let (count, rest) = count_within(FILL_LIMIT, bytes)?;
    if level == 0 && count == 0 {
        return Err(CertFault::Field);
    }
    Ok((count, rest))
}

/// Reads so many fills.
fn some_fills(
    region: Region,
    count: u8,
    bytes: &[u8],
) -> Result<(ArrayVec<Fill, 8>, &[u8]), CertFault>
    requires { count ≤ fill_limit }
    ensures { Gives (λ x. (x.0.items, x.1.now)) result (several {S = Unit {0}} (λ s. fill_at region) (λ f. tt) tt count bytes.now) }
{
    let mut fills = ArrayVec::new();
    let mut rest = bytes;
    for _ in 0..count {
        let (fill, after) = fill_at(region, rest)?;
        fills.push(fill);
        rest = after;
    }
    Ok((fills, rest))
}

/// How many facts hold, of so many, and the fills.
#[tactic(auto, unfolding(crate::specs::WholeReading::fills_at, crate::specs::WholeReading::levels_at))]
pub fn levels_at(
    facts: u16,
    region: Region,
    bytes: &[u8],
) -> Result<((u16, ArrayVec<Fill, 8>), &[u8]), CertFault>
    ensures { Gives (λ x. ((x.0.0, x.0.1.items), x.1.now)) result (levels_at facts region bytes.now) }
{
    let (level, rest) = word_between(0, facts, bytes)?;
    let (count, rest) = fill_count_at(level, rest)?;
    let (fills, rest) = some_fills(region, count, rest)?;
    Ok(((level, fills), rest))
}

// ---- shadows

/// The places behind the byte that says which there are.
fn places_of(region: Region, number: u8, bytes: &[u8]) -> Result<(Shadows, &[u8]), CertFault>
    ensures { Gives (λ x. (x.0, x.1.now)) result (mapped (λ a. to_shadows (number, a)) (optional (has_address number) (address_at region)) bytes.now) }
{
    let (address, rest) = address_where(128 <= number, region, bytes)?;
    let shadows = Shadows {
        registers: to_registers(number % 128),
        address,
    };
    Ok((shadows, rest))
}

/// The places of the first window.
#[tactic(auto, unfolding(crate::specs::WholeReading::shadows_at))]
fn shadows_at(region: Region, bytes: &[u8]) -> Result<(Shadows, &[u8]), CertFault>
    ensures { Gives (λ x. (x.0, x.1.now)) result (shadows_at region bytes.now) }
{
    let (number, rest) = byte(bytes)?;
    places_of(region, number, rest)
}

/// The places of the second window, behind those of the first; there must be some of one.
#[tactic(auto, unfolding(crate::specs::WholeReading::others_at))]
fn others_at(region: Region, first: Shadows, bytes: &[u8]) -> Result<(Shadows, &[u8]), CertFault>
    ensures { Gives (λ x. (x.0, x.1.now)) result (others_at region first bytes.now) }
{
    let (number, rest) = byte(bytes)?;
    if is_unshadowed(&first) && number == 0 {
        return Err(CertFault::Field);
    }
    places_of(region, number, rest)
}

/// The places of both windows.
#[tactic(auto, unfolding(crate::specs::WholeReading::bank_shadows_at))]
pub fn bank_shadows_at(region: Region, bytes: &[u8]) -> Result<(BankShadows, &[u8]), CertFault>
    ensures { Gives (λ x. (x.0, x.1.now)) result (bank_shadows_at region bytes.now) }
{
    let (first, rest) = shadows_at(region, bytes)?;
    let (second, rest) = others_at(region, first, rest)?;
    Ok((BankShadows { first, second }, rest))
}

// ---- what a state says that is about the whole program

/// Whether the stack is put aside, and an item named, only where they may be.
fn may_be_declared(may_be_aside: bool, may_be_item: bool, declared: Declared) -> bool
    ensures { result ≡ may_be_declared may_be_aside may_be_item declared }
{
    (may_be_aside || !declared.aside) && (may_be_item || !declared.item)
}

/// Which parts there are. The stack is put aside, and an item named, only where they may be.
#[tactic(auto, unfolding(crate::specs::WholeReading::declared_at))]
pub fn declared_at(
    may_be_aside: bool,
    may_be_item: bool,
    bytes: &[u8],
) -> Result<(Declared, &[u8]), CertFault>
    ensures { Gives (λ x. (x.0, x.1.now)) result (declared_at may_be_aside may_be_item bytes.now) }
{
    let (bits, rest) = byte_between(0, 15, bytes)?;
    let declared = Declared {
        shadows: bits % 2 == 1,
        levels: bits / 2 % 2 == 1,
        aside: bits / 4 % 2 == 1,
        item: bits / 8 == 1,
    };
    if !may_be_declared(may_be_aside, may_be_item, declared) {
        return Err(CertFault::Field);
    }
    Ok((declared, rest))
}

/// The places that shadow the controller's registers, where they are there.
fn bank_shadows_where(
    there: bool,
    region: Region,
    bytes: &[u8],
) -> Result<(BankShadows, &[u8]), CertFault>
    ensures { Gives (λ x. (x.0, x.1.now)) result (defaulted no_bank_shadows there (bank_shadows_at region) bytes.now) }
{
    if there {
        bank_shadows_at(region, bytes)
    } else {
        Ok((BankShadows::default(), bytes))
    }
}

/// How many facts hold, and the fills, where they are there.
fn levels_where(
    there: bool,
    facts: u16,
    region: Region,
    bytes: &[u8],
) -> Result<((u16, ArrayVec<Fill, 8>), &[u8]), CertFault>
    ensures { Gives (λ x. ((x.0.0, x.0.1.items), x.1.now)) result (defaulted no_levels there (levels_at facts region) bytes.now) }
{
    if there {
        levels_at(facts, region, bytes)
    } else {
        Ok(((0, ArrayVec::new()), bytes))
    }
}

/// Where SP points while the stack is put aside, where that is there.
fn bounds_where(there: bool, bytes: &[u8]) -> Result<(Option<Bounds>, &[u8]), CertFault>
    ensures { Gives (λ x. (x.0, x.1.now)) result (optional there bounds_at bytes.now) }
{
    if !there {
        return Ok((None, bytes));
    }
    let (bounds, rest) = bounds_at(bytes)?;
    Ok((Some(bounds), rest))
}

/// The parts that there are, in a certificate of so many facts.
#[tactic(auto, unfolding(crate::specs::WholeReading::summary_at))]
pub fn summary_at(
    facts: u16,
    region: Region,
    declared: Declared,
    bytes: &[u8],
) -> Result<(Summary, &[u8]), CertFault>
    ensures { Gives (λ x. (x.0, x.1.now)) result (summary_at facts region declared bytes.now) }
{
    let (shadows, rest) = bank_shadows_where(declared.shadows, region, bytes)?;
    let ((level, fills), rest) = levels_where(declared.levels, facts, region, rest)?;
    let (aside, rest) = bounds_where(declared.aside, rest)?;
    Ok((Summary::of_parts(level, fills, shadows, aside), rest))
}

// ---- what a procedure names

/// An address of RAM outside the region, from the least one on.
#[tactic(auto, unfolding(crate::specs::WholeReading::free_address_at))]
pub fn free_address_at(region: Region, least: u32, bytes: &[u8]) -> Result<(u16, &[u8]), CertFault>
    ensures { Gives (λ x. (x.0, x.1.now)) result (free_address_at region least bytes.now) }
{
    let (address, rest) = address_at(region, bytes)?;
    if (address as u32) < least {
        return Err(CertFault::Order);
    }
    Ok((address, rest))
}

/// Reads so many addresses to be kept.
fn some_kept(
    region: Region,
    count: u8,
    bytes: &[u8],
) -> Result<(ArrayVec<u16, 16>, &[u8]), CertFault>
    requires { count ≤ kept_limit }
    ensures { Gives (λ x. (x.0.items, x.1.now)) result (several (free_address_at region) after_address 0 count bytes.now) }
{
    let mut kept = ArrayVec::new();
    let mut least = 0;
    let mut rest = bytes;
    for _ in 0..count {
        let (address, after) = free_address_at(region, least, rest)?;
        kept.push(address);
        least = address as u32 + 1;
        rest = after;
    }
    Ok((kept, rest))
}

/// The most addresses that main, or another procedure, names to be kept.
pub fn kept_room(is_main: bool) -> u8
    ensures exact { result ≡ kept_room is_main }
    ensures few { result ≤ kept_limit }
{
    if is_main { 0 } else { KEPT_LIMIT }
}

/// The addresses that main, or another procedure, names to be kept.
#[tactic(auto, unfolding(crate::specs::WholeReading::kept_addresses_at))]
pub fn kept_addresses_at(
    is_main: bool,
    region: Region,
    bytes: &[u8],
) -> Result<(ArrayVec<u16, 16>, &[u8]), CertFault>
    ensures { Gives (λ x. (x.0.items, x.1.now)) result (kept_addresses_at is_main region bytes.now) }
{
    let (count, rest) = count_within(kept_room(is_main), bytes)?;
    some_kept(region, count, rest)
}
