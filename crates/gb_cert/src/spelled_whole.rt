//! The bytes of what version 4 alone says, added to what is there: low bits and further origins of values, which registers of the
//! controller are kept, facts, what a state says of the whole program, and addresses to be kept.

ghost use Rattle.std.specs.Prelude.{◌≡◌, ◌≤◌, ◌++◌, ◌&&◌, true, not, length, OnOk};
ghost use Rattle.std.specs.List.{flat_map};
ghost use Rattle.gb_cert.specs.Written.{is_tagged};
ghost use Rattle.gb_domain.specs.Silent.{is_unshadowed};
ghost use Rattle.gb_states.specs.Below.gb_fields.Limits.{fact_limit, fill_limit, kept_limit};
ghost use Rattle.gb_states.specs.RelationSpelling as told;
ghost use Rattle.gb_states.specs.Spelling as older;
ghost use Rattle.gb_states.specs.WholeRules.{is_said, is_origin_in};
ghost use Rattle.gb_states.specs.WholeSpelling as spelled;

use crate::spelled::{flag, origin_number, put, word};
use crate::told::{present_by, present_number, put_address, put_parts, registers_number};
use gb_domain::pairs::Bounds;
use gb_domain::relations::Relations;
use gb_domain::summary::{
    BankShadows, Fact, Fill, FillEnd, Reach, Shadows, Summary, is_unshadowed,
};
use gb_domain::types::{KeptBanks, Origin, Val};
use gb_ops::machine::Region;
use gb_ops::op::Pointer;
use gb_states::InMemory;
use gb_states::whole::Declared;
use std::alloc::AllocError;

// ---- values

/// An origin's number: those of versions 1 to 3, then the kept bytes' and the mark's.
fn fourth_origin_number(origin: Option<Origin>) -> u8
    requires { is_origin_in kept_limit origin ≡ true }
    ensures exact { result ≡ spelled.origin_number origin }
    ensures few { result ≤ 31 }
{
    match origin {
        Some(Origin::Kept(number)) => 12 + number,
        Some(Origin::MarkHigh) => 28,
        Some(Origin::MarkLow) => 29,
        other => origin_number(other),
    }
}

/// How many low bits are known, above the origin's number.
pub(crate) fn fourth_tag(val: Val) -> u8
    requires { is_tagged val ≡ true }
    ensures { result ≡ spelled.tag val }
{
    32 * val.low_bits + fourth_origin_number(val.origin)
}

pub(crate) fn kept_number(kept: KeptBanks) -> u8
    ensures { result ≡ spelled.kept_number kept }
{
    16 * flag(kept.high_bank)
        + 8 * flag(kept.mode)
        + 4 * flag(kept.gate)
        + 2 * flag(kept.second)
        + flag(kept.bank)
}

// ---- facts and fills

#[tactic(auto, unfolding(gb_states::specs::WholeSpelling::stretch))]
fn put_stretch(first: u16, last: u16, out: &mut Vec<u8>) -> Result<(), AllocError>
    ensures { OnOk result (out.new.items ≡ out.old.items ++ spelled.stretch first last) }
{
    put(&word(first), out)?;
    put(&word(last), out)
}

#[tactic(auto, unfolding(gb_states::specs::WholeSpelling::fact))]
fn put_fact(fact: &Fact, out: &mut Vec<u8>) -> Result<(), AllocError>
    ensures { OnOk result (out.new.items ≡ out.old.items ++ spelled.fact fact.now) }
{
    put_stretch(fact.first, fact.last, out)?;
    let value = fact.value;
    put(&[fact.step, value.lo, value.hi, value.count], out)
}

/// Adds the number of facts, and then the facts.
#[tactic(auto, unfolding(gb_states::specs::WholeSpelling::facts))]
pub(crate) fn put_facts(facts: &[Fact], out: &mut Vec<u8>) -> Result<(), AllocError>
    requires { length facts.now ≤ fact_limit }
    ensures { OnOk result (out.new.items ≡ out.old.items ++ spelled.facts facts.now) }
{
    put(&word(facts.len() as u16), out)?;
    for fact in facts {
        put_fact(fact, out)?;
    }
    Ok(())
}

fn pointer_number(pointer: Pointer) -> u8
    ensures exact { result ≡ spelled.pointer_number pointer }
    ensures few { result ≤ 4 }
{
    match pointer {
        Pointer::Bc => 1,
        Pointer::De => 2,
        Pointer::Hl => 3,
        Pointer::HighC => 4,
    }
}

/// 1 to 4 for those below their end, 5 to 8 for those above.
fn end_number(end: FillEnd) -> u8
    ensures { result ≡ spelled.end_number end }
{
    match end.reach {
        Reach::Below => pointer_number(end.pointer),
        Reach::Above => 4 + pointer_number(end.pointer),
    }
}

/// Adds 0, or what the end is and its distance in two's complement.
fn put_end(end: Option<FillEnd>, out: &mut Vec<u8>) -> Result<(), AllocError>
    ensures { OnOk result (out.new.items ≡ out.old.items ++ spelled.fill_end end) }
{
    match end {
        None => put(&[0], out),
        Some(end) => {
            put(&[end_number(end)], out)?;
            put(&word(end.offset.wrapping_add(32_768)), out)
        }
    }
}

#[tactic(auto, unfolding(gb_states::specs::WholeSpelling::fill))]
fn put_fill(fill: &Fill, out: &mut Vec<u8>) -> Result<(), AllocError>
    ensures { OnOk result (out.new.items ≡ out.old.items ++ spelled.fill fill.now) }
{
    put_stretch(fill.first, fill.last, out)?;
    put_end(fill.end, out)?;
    put(&[fill.lo, fill.hi], out)
}

/// Adds the number of fills, and then the fills.
fn put_fills(fills: &[Fill], out: &mut Vec<u8>) -> Result<(), AllocError>
    requires { length fills.now ≤ fill_limit }
    ensures { OnOk result (out.new.items ≡ out.old.items ++ older.counted spelled.fill fills.now) }
{
    put(&[fills.len() as u8], out)?;
    for fill in fills {
        put_fill(fill, out)?;
    }
    Ok(())
}

/// Whether there is a level or a fill.
fn has_levels(summary: &Summary) -> bool
    ensures { result ≡ is_said summary.now.level (length summary.now.fills) }
{
    !(summary.level() == 0 && summary.fills().is_empty())
}

/// Adds how many facts hold, and the fills, where there is one of both.
#[tactic(auto, unfolding(gb_states::specs::WholeSpelling::levels))]
fn put_levels(summary: &Summary, out: &mut Vec<u8>) -> Result<(), AllocError>
    ensures { OnOk result (out.new.items ≡ out.old.items ++ told.where_there (is_said summary.now.level (length summary.now.fills)) (spelled.levels (summary.now.level, summary.now.fills))) }
{
    if has_levels(summary) {
        put(&word(summary.level()), out)?;
        put_fills(summary.fills(), out)
    } else {
        Ok(())
    }
}

// ---- shadows

/// Bit 7 says that an address follows.
fn shadows_number(shadows: &Shadows) -> u8
    ensures { result ≡ spelled.shadows_number shadows.now }
{
    128 * flag(shadows.address.is_some()) + registers_number(&shadows.registers)
}

#[tactic(auto, unfolding(gb_states::specs::WholeSpelling::shadows))]
fn put_shadows(shadows: &Shadows, out: &mut Vec<u8>) -> Result<(), AllocError>
    ensures { OnOk result (out.new.items ≡ out.old.items ++ spelled.shadows shadows.now) }
{
    put(&[shadows_number(shadows)], out)?;
    put_address(shadows.address, out)
}

/// Whether there is a place of one of the two windows.
fn has_shadows(shadows: &BankShadows) -> bool
    ensures { result ≡ not (is_unshadowed shadows.now.first && is_unshadowed shadows.now.second) }
{
    !(is_unshadowed(&shadows.first) && is_unshadowed(&shadows.second))
}

/// Adds the places of both windows, where there is one.
#[tactic(auto, unfolding(gb_states::specs::WholeSpelling::bank_shadows))]
fn put_bank_shadows(shadows: &BankShadows, out: &mut Vec<u8>) -> Result<(), AllocError>
    ensures { OnOk result (out.new.items ≡ out.old.items ++ told.where_there (not (is_unshadowed shadows.now.first && is_unshadowed shadows.now.second)) (spelled.bank_shadows shadows.now)) }
{
    if has_shadows(shadows) {
        put_shadows(&shadows.first, out)?;
        put_shadows(&shadows.second, out)
    } else {
        Ok(())
    }
}

// ---- what a state says of the whole program

/// Which parts there are, where an item is among the places of the one byte or not.
fn declared_in(item: bool, summary: &Summary) -> Declared
    ensures { result ≡ spelled.declared_in item summary.now }
{
    Declared {
        shadows: has_shadows(&summary.shadows()),
        levels: has_levels(summary),
        aside: summary.aside().is_some(),
        item,
    }
}

fn declared_number(declared: Declared) -> u8
    ensures { result ≡ spelled.declared_number declared }
{
    8 * flag(declared.item)
        + 4 * flag(declared.aside)
        + 2 * flag(declared.levels)
        + flag(declared.shadows)
}

/// Adds where SP points while the stack is put aside, where it is.
fn put_aside(aside: Option<Bounds>, out: &mut Vec<u8>) -> Result<(), AllocError>
    ensures { OnOk result (out.new.items ≡ out.old.items ++ told.optional told.bounds aside) }
{
    match aside {
        None => Ok(()),
        Some(bounds) => {
            put(&word(bounds.first), out)?;
            put(&word(bounds.last), out)
        }
    }
}

/// Adds the parts that there are.
#[tactic(auto, unfolding(gb_states::specs::WholeSpelling::summary))]
fn put_summary(summary: &Summary, out: &mut Vec<u8>) -> Result<(), AllocError>
    ensures { OnOk result (out.new.items ≡ out.old.items ++ spelled.summary summary.now) }
{
    put_bank_shadows(&summary.shadows(), out)?;
    put_levels(summary, out)?;
    put_aside(summary.aside(), out)
}

/// The number of the item that lies at an address.
fn item_number(base: u16, address: u16) -> u8
    ensures { result ≡ spelled.item_number base address }
{
    (base.saturating_sub(1).saturating_sub(address) % 256) as u8
}

/// Adds which parts there are of both, and these parts; these bytes spell the one byte's place in memory.
fn put_told_by(
    place: InMemory,
    memory: &[u8],
    relations: &Relations,
    summary: &Summary,
    out: &mut Vec<u8>,
) -> Result<(), AllocError>
    ensures { OnOk result (out.new.items ≡ out.old.items ++ spelled.told_by place memory.now (relations.now, summary.now)) }
{
    let present = present_by(matches!(place, InMemory::Address), relations);
    let declared = declared_in(matches!(place, InMemory::Item), summary);
    put(&[present_number(present), declared_number(declared)], out)?;
    put_parts(memory, relations, out)?;
    put_summary(summary, out)
}

/// Adds what is known of several parts together and what is said of the whole program, where items are counted from this base: an
/// address in the region is that of an item.
#[tactic(auto, unfolding(gb_states::specs::WholeSpelling::told))]
pub(crate) fn put_told(
    region: Region,
    base: u16,
    relations: &Relations,
    summary: &Summary,
    out: &mut Vec<u8>,
) -> Result<(), AllocError>
    ensures { OnOk result (out.new.items ≡ out.old.items ++ spelled.told region base (relations.now, summary.now)) }
{
    let Some(address) = relations.byte.address else {
        return put_told_by(InMemory::Nowhere, &[], relations, summary, out);
    };
    if address <= region.last && region.first <= address {
        let number = item_number(base, address);
        put_told_by(InMemory::Item, &[number], relations, summary, out)
    } else {
        put_told_by(InMemory::Address, &word(address), relations, summary, out)
    }
}

// ---- what a procedure names

/// Adds the number of kept addresses, and then the addresses.
#[tactic(auto, unfolding(gb_states::specs::WholeSpelling::kept_addresses))]
pub(crate) fn put_kept_addresses(addresses: &[u16], out: &mut Vec<u8>) -> Result<(), AllocError>
    requires { length addresses.now ≤ kept_limit }
    ensures { OnOk result (out.new.items ≡ out.old.items ++ spelled.kept_addresses addresses.now) }
{
    put(&[addresses.len() as u8], out)?;
    for address in addresses {
        put(&word(*address), out)?;
    }
    Ok(())
}
