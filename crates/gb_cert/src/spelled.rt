//! The bytes of states, added to what is there.

ghost use Rattle.std.specs.Prelude.{◌≡◌, ◌≤◌, ◌++◌, true, length, OnOk};
ghost use Rattle.std.specs.List.{flat_map, list_all};
ghost use Rattle.gb_cert.specs.Spelled as by_version;
ghost use Rattle.gb_cert.specs.Written.{is_fourth, rules_in, units, says, says_cell, AreRegistersSaid, IsCoreSaid, IsStateSaid};
ghost use Rattle.gb_states.specs.Spelling as spelled;

use crate::spelled_whole::{fourth_tag, kept_number, put_told};
use crate::told::{compared, put_relations_by};
use crate::writer::Version;
use gb_domain::relations::Relations;
use gb_domain::summary::Summary;
use gb_domain::types::{Abs, Cell, Core, Ctl, Flg, ImeSet, KeptBanks, May, Origin, Rules, Val};
use gb_ops::machine::Region;
use gb_ops::registers::Registers;
use gb_states::whole_states::item_base;
use std::alloc::AllocError;

/// Adds bytes.
#[inline(always)]
pub(crate) fn put(bytes: &[u8], out: &mut Vec<u8>) -> Result<(), AllocError>
    ensures { OnOk result (out.new.items ≡ out.old.items ++ bytes.now) }
{
    out.extend_from_slice(bytes)
}

/// A word, its low byte first.
#[inline(always)]
pub(crate) fn word(word: u16) -> [u8; 2]
    ensures { result ≡ spelled.word word }
{
    [(word % 256) as u8, (word / 256) as u8]
}

/// An origin's number in a certificate: 0 for none. Versions 1 to 3 have no number for a kept byte or the mark; those get 255, which no
/// reader accepts.
pub(crate) fn origin_number(origin: Option<Origin>) -> u8
    ensures { result ≡ spelled.origin_number origin }
{
    match origin {
        None => 0,
        Some(Origin::A) => 1,
        Some(Origin::F) => 2,
        Some(Origin::B) => 3,
        Some(Origin::C) => 4,
        Some(Origin::D) => 5,
        Some(Origin::E) => 6,
        Some(Origin::H) => 7,
        Some(Origin::L) => 8,
        Some(Origin::Ie) => 9,
        Some(Origin::ReturnHigh) => 10,
        Some(Origin::ReturnLow) => 11,
        Some(Origin::Kept(_)) | Some(Origin::MarkHigh) | Some(Origin::MarkLow) => 255,
    }
}

/// An origin's number; in version 4 how many low bits are known stands above it.
fn tag(version: Version, val: Val) -> u8
    requires { says version val ≡ true }
    ensures { result ≡ by_version.tag_by (is_fourth version) val }
{
    if version.is_fourth() {
        fourth_tag(val)
    } else {
        origin_number(val.origin)
    }
}

/// Adds a value: its ends, its origin, and in version 4 its low bits.
#[tactic(auto, unfolding(crate::specs::Spelled::val))]
fn put_val(version: Version, val: Val, out: &mut Vec<u8>) -> Result<(), AllocError>
    requires { says version val ≡ true }
    ensures { OnOk result (out.new.items ≡ out.old.items ++ by_version.val version val) }
{
    put(&[val.lo, val.hi, tag(version, val)], out)
}

/// 1 for yes, 0 for no.
#[inline(always)]
pub(crate) fn flag(is_set: bool) -> u8
    ensures value { result ≡ spelled.flag is_set }
    ensures bit { result ≤ 1 }
{
    if is_set { 1 } else { 0 }
}

/// What a bit may be: 1 for clear, and 2 for set.
fn may_number(may: May) -> u8
    ensures { result ≡ spelled.may_number may }
{
    2 * flag(may.set) + flag(may.clear)
}

/// What the interrupt master enable may be: 1 for off, 2 for pending, and 4 for on.
fn ime_number(ime: ImeSet) -> u8
    ensures { result ≡ spelled.ime_number ime }
{
    4 * flag(ime.on) + 2 * flag(ime.pending) + flag(ime.off)
}

/// Whether there is a test, and its value.
fn test(test: Option<u8>) -> [u8; 2]
    ensures { result ≡ spelled.test test }
{
    match test {
        None => [0, 0],
        Some(value) => [1, value],
    }
}

/// Which flags may be set, and which may be clear.
fn flags_number(flags: &Flg) -> u8
    ensures { result ≡ spelled.flags_number flags.now.zero flags.now.subtract flags.now.half_carry flags.now.carry }
{
    let set = 128 * flag(flags.zero.set)
        + 64 * flag(flags.subtract.set)
        + 32 * flag(flags.half_carry.set)
        + 16 * flag(flags.carry.set);
    let clear = 8 * flag(flags.zero.clear)
        + 4 * flag(flags.subtract.clear)
        + 2 * flag(flags.half_carry.clear)
        + flag(flags.carry.clear);
    set + clear
}

/// The flags, and whether F is its own origin.
#[tactic(auto, unfolding(gb_states::specs::Spelling::flg))]
fn flg(flags: &Flg) -> [u8; 2]
    ensures { result ≡ spelled.flg flags.now }
{
    [flags_number(flags), if flags.is_own { 2 } else { 0 }]
}

/// Which registers of the controller are kept, or in versions 1 to 3 whether all are.
fn kept_by(version: Version, kept: KeptBanks) -> u8
    ensures { result ≡ by_version.kept_by (is_fourth version) kept }
{
    if version.is_fourth() {
        kept_number(kept)
    } else {
        flag(kept.are_all())
    }
}

/// Adds the controller's registers.
#[tactic(auto, unfolding(crate::specs::Spelled::ctl))]
fn put_ctl(version: Version, ctl: &Ctl, out: &mut Vec<u8>) -> Result<(), AllocError>
    ensures { OnOk result (out.new.items ≡ out.old.items ++ by_version.ctl version ctl.now) }
{
    put(&word(ctl.bank_lo), out)?;
    put(&word(ctl.bank_hi), out)?;
    put(
        &[
            ctl.second_lo,
            ctl.second_hi,
            may_number(ctl.gate),
            may_number(ctl.mode),
            kept_by(version, ctl.kept),
        ],
        out,
    )
}

/// Adds the values of the registers.
#[tactic(auto, unfolding(crate::specs::Spelled::vals))]
fn put_vals(
    version: Version,
    registers: &Registers<Val>,
    out: &mut Vec<u8>,
) -> Result<(), AllocError>
    requires { AreRegistersSaid version registers.now }
    ensures { OnOk result (out.new.items ≡ out.old.items ++ by_version.vals version registers.now) }
{
    put_val(version, registers.a, out)?;
    put_val(version, registers.b, out)?;
    put_val(version, registers.c, out)?;
    put_val(version, registers.d, out)?;
    put_val(version, registers.e, out)?;
    put_val(version, registers.h, out)?;
    put_val(version, registers.l, out)
}

/// Adds a core, and the test that stands in it.
#[tactic(auto, unfolding(crate::specs::Spelled::core))]
fn put_core(
    version: Version,
    core: &Core,
    tested: Option<u8>,
    out: &mut Vec<u8>,
) -> Result<(), AllocError>
    requires { IsCoreSaid version core.now }
    ensures { OnOk result (out.new.items ≡ out.old.items ++ by_version.core version core.now tested) }
{
    put(
        &[ime_number(core.ime), core.bound, flag(core.stack_set)],
        out,
    )?;
    put(&test(tested), out)?;
    put_ctl(version, &core.ctl, out)?;
    put(&flg(&core.flags), out)?;
    put_val(version, core.ie, out)?;
    put_vals(version, &core.registers, out)
}

/// How many words, or in versions 3 and 4 bytes, so many bytes are.
#[tactic(auto, unfolding(crate::specs::Opened::unit))]
pub(crate) fn units(rules: Rules, bytes: u16) -> u16
    ensures exact { result ≡ units rules bytes }
    ensures few { result ≤ bytes }
{
    match rules {
        Rules::Simple => bytes / 2,
        Rules::Extended => bytes,
    }
}

/// Adds how many words of the stack there are, or in versions 3 and 4 how many bytes, and then the bytes.
fn put_items(version: Version, items: &[Val], out: &mut Vec<u8>) -> Result<(), AllocError>
    requires few { length items.now ≤ 255 }
    requires said { list_all (says version) items.now ≡ true }
    ensures { OnOk result (out.new.items ≡ out.old.items ++ by_version.items version items.now) }
{
    put(&[units(version.rules(), items.len() as u16) as u8], out)?;
    for item in items {
        put_val(version, *item, out)?;
    }
    Ok(())
}

/// Adds a cell.
#[tactic(auto, unfolding(crate::specs::Spelled::cell))]
fn put_cell(version: Version, cell: &Cell, out: &mut Vec<u8>) -> Result<(), AllocError>
    requires { says_cell version cell.now ≡ true }
    ensures { OnOk result (out.new.items ≡ out.old.items ++ by_version.cell version cell.now) }
{
    put(&word(cell.address), out)?;
    put_val(version, cell.val, out)
}

/// Adds cells behind their count.
fn put_cells(version: Version, cells: &[Cell], out: &mut Vec<u8>) -> Result<(), AllocError>
    requires few { length cells.now ≤ 64 }
    requires said { list_all (says_cell version) cells.now ≡ true }
    ensures { OnOk result (out.new.items ≡ out.old.items ++ spelled.counted (by_version.cell version) cells.now) }
{
    put(&[cells.len() as u8], out)?;
    for cell in cells {
        put_cell(version, cell, out)?;
    }
    Ok(())
}

/// Adds what is known of several parts together, and in version 4 what is said of the whole program: nothing in versions 1 and 2.
fn put_told_by(
    version: Version,
    region: Region,
    base: u16,
    relations: &Relations,
    summary: &Summary,
    out: &mut Vec<u8>,
) -> Result<(), AllocError>
    ensures { OnOk result (out.new.items ≡ out.old.items ++ by_version.told_by (is_fourth version) (rules_in version) region base (relations.now, summary.now)) }
{
    if version.is_fourth() {
        put_told(region, item_base(base, region), relations, summary, out)
    } else {
        put_relations_by(version.rules(), relations, out)
    }
}

/// Adds a state of a procedure with this base: its core with its test, its items, what is known of several parts together and said of
/// the whole program as far as the version says it, and its cells.
#[tactic(auto, unfolding(crate::specs::Spelled::state))]
pub(crate) fn put_state(
    version: Version,
    region: Region,
    base: u16,
    state: &Abs,
    out: &mut Vec<u8>,
) -> Result<(), AllocError>
    requires { IsStateSaid version state.now }
    ensures { OnOk result (out.new.items ≡ out.old.items ++ by_version.state version region base state.now) }
{
    let relations = state.relations();
    put_core(version, state.core(), compared(relations.byte.test), out)?;
    put_items(version, state.items(), out)?;
    put_told_by(version, region, base, relations, state.summary(), out)?;
    put_cells(version, state.cells(), out)
}
