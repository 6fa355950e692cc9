//! Stores to abstract states.

ghost use Rattle.std.specs.Prelude.{◌≡◌, None, IfOk};
ghost use Rattle.std.specs.List.{list_any};
ghost use Rattle.gb_domain.specs.Settings.{known_base};
ghost use Rattle.gb_abs_memory.specs.Access as Access;
ghost use Rattle.gb_abs_memory.specs.Sound.{IsSoundStore};

use crate::items::store_to_items;
use crate::refusals::{is_store_limited, store_meets_closed_ram};
use crate::windows::{ControllerRegister, ctl_written, window_of};
use gb_abs::cells::{widened_cells, with_cell, without_cells};
use gb_abs::reason::Reason;
use gb_abs::span::Span;
use gb_domain::types::{Abs, Core, Range, Rules, Setting, Val};
use gb_header::Rom;
use gb_ops::machine::{Kind, Region};

/// Where a store may lie.
#[derive(Clone, Copy, PartialEq, Eq)]
pub enum Area {
    /// A window of the controller's, and the register that is written there.
    Controller(Option<ControllerRegister>),
    /// Video RAM, cartridge RAM, or OAM and I/O: an abstract state knows nothing of these.
    Hardware,
    Ram,
    InterruptEnable,
}

/// The state after a store, and whether it starts an OAM transfer.
#[derive(Drop)]
pub struct Stored {
    pub state: Abs,
    /// Whether an OAM transfer starts when the instruction has ended.
    pub starts: bool,
}

/// Where a span lies that is in no window.
fn area_above(span: Span) -> Option<Area>
    ensures { result ≡ Access.area_by None span }
{
    if span.is_inside(0x8000, 0x9FFF)
        || span.is_inside(0xA000, 0xBFFF)
        || span.is_inside(0xFE00, 0xFF7F)
    {
        Some(Area::Hardware)
    } else if span.is_inside(0xC000, 0xDFFF) || span.is_inside(0xFF80, 0xFFFE) {
        Some(Area::Ram)
    } else if span.is_inside(0xFFFF, 0xFFFF) {
        Some(Area::InterruptEnable)
    } else {
        None
    }
}

/// The area that all of these addresses lie in.
#[tactic(auto, unfolding(crate::specs::Access::area_of))]
pub fn area_of(kind: Kind, span: Span) -> Option<Area>
    ensures { result ≡ Access.area_of kind span }
{
    match window_of(kind, span) {
        Some(window) => Some(Area::Controller(window.register)),
        None => area_above(span),
    }
}

/// Whether one range holds all of these addresses.
fn is_in_a_range(ranges: &[Range], span: Span) -> bool
    ensures { result ≡ list_any (Access.is_range span) ranges.now }
{
    ranges
        .iter()
        .any(|range| span.is_inside(range.first, range.last))
}

/// Whether all of these addresses lie in the stack region, below the procedure's base, which is known.
fn is_below_base(setting: Setting, region: Region, span: Span) -> bool
    ensures { result ≡ Access.is_below_base (known_base setting) region span }
{
    match setting.known_base() {
        Some(base) => span.is_inside(region.first, region.last) && span.last < base,
        None => false,
    }
}

/// Whether RAM may be stored to at these addresses: outside the stack region, inside one of the procedure's ranges; by the
/// rules of version 3 in main anywhere, and in another procedure inside one of its ranges, or in the stack region below its
/// base.
fn is_ram_storable(setting: Setting, region: Region, ranges: &[Range], span: Span) -> bool
    ensures { result ≡ Access.is_ram_allowed setting.rules setting region ranges.now span }
{
    match setting.rules {
        Rules::Simple => {
            !span.may_meet(region.first, region.last) && is_in_a_range(ranges, span)
        }
        Rules::Extended => {
            setting.is_main || is_in_a_range(ranges, span) || is_below_base(setting, region, span)
        }
    }
}

/// Whether all of these addresses lie in one area that may be stored to, RAM where the procedure may.
#[tactic(auto, unfolding(crate::specs::Access::is_storable))]
pub fn is_storable(
    setting: Setting,
    kind: Kind,
    region: Region,
    ranges: &[Range],
    span: Span,
) -> bool
    ensures { result ≡ Access.is_storable setting kind region ranges.now span }
{
    match area_of(kind, span) {
        None => false,
        Some(Area::Ram) => is_ram_storable(setting, region, ranges, span),
        Some(Area::Controller(_) | Area::Hardware | Area::InterruptEnable) => true,
    }
}

/// The lowest reason against a store.
#[tactic(auto, unfolding(crate::specs::Access::store_reason))]
fn store_reason(
    setting: Setting,
    rom: &Rom<'_>,
    region: Region,
    ranges: &[Range],
    core: &Core,
    span: Span,
    val: &Val,
) -> Option<Reason>
    ensures { result ≡ Access.store_reason setting rom.now region ranges.now core.now span val.now }
{
    if !is_storable(setting, rom.kind(), region, ranges, span) {
        Some(Reason::Store)
    } else if store_meets_closed_ram(rom, core, span, val) {
        Some(Reason::CartridgeRam)
    } else if is_store_limited(core, span) {
        Some(Reason::OamTransfer)
    } else {
        None
    }
}

/// The state whose cell at one address of RAM gets a value. By the rules of version 3, which let the stack region be
/// stored to, a byte there gets no cell.
fn one_stored(setting: Setting, region: Region, span: Span, val: &Val, state: &Abs) -> Abs
    ensures { result ≡ record state.now { cells = Access.one_stored setting.rules region span val.now state.now.cells } }
{
    match setting.rules {
        Rules::Simple => with_cell(setting.rules, state, span.first, *val),
        Rules::Extended => {
            if span.may_meet(region.first, region.last) {
                state.copied()
            } else {
                with_cell(setting.rules, state, span.first, *val)
            }
        }
    }
}

/// The state after a store to one of several addresses of RAM: nothing is known of their cells any more, or, by the rules of
/// version 3, they may hold the value too.
fn several_stored(setting: Setting, span: Span, val: &Val, state: &Abs) -> Abs
    ensures { result ≡ record state.now { cells = Access.several_stored setting.is_whole setting.rules span val.now state.now.cells } }
{
    match setting.rules {
        Rules::Simple => without_cells(state, span.first, span.last),
        Rules::Extended => widened_cells(state, setting.is_whole, span, *val),
    }
}

/// A store to RAM changes cells and items.
#[tactic(auto, unfolding(crate::specs::Access::ram_stored))]
fn store_to_ram(setting: Setting, region: Region, span: Span, val: &Val, state: &mut Abs)
    ensures { state.new ≡ Access.ram_stored setting region span val.now state.old }
{
    *state = if span.is_one() {
        one_stored(setting, region, span, val, state)
    } else {
        several_stored(setting, span, val, state)
    };
    store_to_items(setting, region, span, val, state);
}

/// A store changes the core.
#[inline(never)]
#[tactic(auto, unfolding(crate::specs::Access::stored_core))]
pub fn store_in_core(is_whole: bool, kind: Kind, span: Span, val: &Val, core: &mut Core)
    ensures { core.new ≡ Access.stored_core is_whole kind span val.now core.old }
{
    match area_of(kind, span) {
        Some(Area::Controller(Some(register))) => {
            core.ctl = ctl_written(is_whole, kind, register, val, &core.ctl);
        }
        Some(Area::InterruptEnable) => core.ie = *val,
        Some(Area::Controller(None) | Area::Hardware | Area::Ram) | None => {}
    }
}

/// A store in the area that all of these addresses lie in changes the state. What is against the store
/// is asked apart: `is_storable`, and what refuses it.
#[tactic(auto, unfolding(crate::specs::Access::stored_state))]
pub fn store_in(
    setting: Setting,
    region: Region,
    kind: Kind,
    span: Span,
    val: &Val,
    state: &mut Abs,
)
    ensures { state.new ≡ Access.stored_state setting region kind span val.now state.old }
{
    match area_of(kind, span) {
        Some(Area::Controller(Some(register))) => {
            let core = *state.core();
            let ctl = ctl_written(setting.is_whole, kind, register, val, &core.ctl);
            state.set_core(Core { ctl, ..core });
        }
        Some(Area::Ram) => store_to_ram(setting, region, span, val, state),
        Some(Area::InterruptEnable) => {
            state.set_core(Core {
                ie: *val,
                ..*state.core()
            });
        }
        Some(Area::Controller(None) | Area::Hardware) | None => {}
    }
}

/// The state after such a store.
pub fn stored_state(
    setting: Setting,
    region: Region,
    kind: Kind,
    span: Span,
    val: &Val,
    state: &Abs,
) -> Abs
    ensures { result ≡ Access.stored_state setting region kind span val.now state.now }
{
    let mut after = state.copied();
    store_in(setting, region, kind, span, val, &mut after);
    after
}

/// Whether a store starts an OAM transfer: one to FF46 alone does (OAM DMA transfer).
pub fn starts_oam_transfer(span: Span) -> bool
    ensures { result ≡ Access.starts_oam_transfer span }
{
    span.is_one() && span.first == 0xFF46
}

/// What a store leaves, or the lowest reason against it.
#[tactic(auto, unfolding(crate::specs::Access::store))]
fn stored_or_reason(
    setting: Setting,
    rom: &Rom<'_>,
    region: Region,
    ranges: &[Range],
    state: &Abs,
    span: Span,
    val: &Val,
) -> Result<Stored, Reason>
    ensures { result ≡ Access.store setting rom.now region ranges.now state.now span val.now }
{
    match store_reason(setting, rom, region, ranges, state.core(), span, val) {
        Some(reason) => Err(reason),
        None => Ok(Stored {
            state: stored_state(setting, region, rom.kind(), span, val, state),
            starts: starts_oam_transfer(span),
        }),
    }
}

/// What a store of one of these bytes to one of these addresses leaves (Memory map; MBCs; own).
///
/// # Errors
///
/// The lowest reason against the store: no area for stores, cartridge RAM that may be closed, or an
/// OAM transfer.
#[tactic(auto, using(crate::proofs::StoreLaws::store_laws))]
pub fn store(
    setting: Setting,
    rom: &Rom<'_>,
    region: Region,
    ranges: &[Range],
    state: &Abs,
    span: Span,
    val: &Val,
) -> Result<Stored, Reason>
    ensures exact { result ≡ Access.store setting rom.now region ranges.now state.now span val.now }
    ensures sound { IfOk result (λ o. IsSoundStore setting rom.now region ranges.now state.now span val.now o) }
{
    stored_or_reason(setting, rom, region, ranges, state, span, val)
}
