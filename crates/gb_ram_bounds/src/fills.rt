//! Fills: what one state says of a stretch of RAM, as far as a loop has come that clears or copies.

ghost use Rattle.std.specs.Prelude.{◌≡◌, true, Option, IfSome};
ghost use Rattle.gb_ram_bounds.specs.Fills as Fills;
ghost use Rattle.gb_ram_bounds.specs.Reached as Reached;
ghost use Rattle.gb_ram_bounds.specs.Meaning.{IsSoundByFills, IsSoundStore, IsSoundWrite, IsSoundRise, IsSoundFall};

use crate::addresses::{AddressSet, is_in};
use crate::facts::{cut_or_same, is_to_cell};
use crate::pointers::{Pointers, is_same};
use gb_domain::interval::bounds;
use gb_domain::summary::{Fill, FillEnd, Reach};
use gb_domain::types::Cell;
use gb_domain::{Bounds, StridedInterval};
use gb_ops::op::Pointer;

/// A distance of 0.
const NO_DISTANCE: u16 = 32_768;

#[tactic(auto, unfolding(crate::specs::Fills::is_reached))]
fn is_reached(end: FillEnd, pointer: u16, address: u16) -> bool
    ensures { result ≡ Fills.is_reached end pointer address }
{
    let edge = u32::from(pointer) + u32::from(end.offset);
    let address = u32::from(address) + u32::from(NO_DISTANCE);
    match end.reach {
        Reach::Below => address < edge,
        Reach::Above => edge < address,
    }
}

/// The value of a pointer with which the fewest addresses are reached.
fn nearest(reach: Reach, pointer: Bounds) -> u16
    ensures { result ≡ Fills.nearest reach pointer }
{
    match reach {
        Reach::Below => pointer.first,
        Reach::Above => pointer.last,
    }
}

/// The value of a pointer with which the most addresses are reached.
fn farthest(reach: Reach, pointer: Bounds) -> u16
    ensures { result ≡ Fills.farthest reach pointer }
{
    match reach {
        Reach::Below => pointer.last,
        Reach::Above => pointer.first,
    }
}

#[tactic(auto, unfolding(crate::specs::Fills::may_be_reached))]
fn may_be_reached(end: FillEnd, pointers: &Pointers<Bounds>, address: u16) -> bool
    ensures { result ≡ Fills.may_be_reached end pointers.now address }
{
    is_reached(end, farthest(end.reach, pointers.get(end.pointer)), address)
}

/// Whether an address is on an end's side with some value that the pointer may have.
pub(crate) fn may_reach(end: Option<FillEnd>, pointers: &Pointers<Bounds>, address: u16) -> bool
    ensures { result ≡ Fills.may_reach end pointers.now address }
{
    match end {
        Some(end) => may_be_reached(end, pointers, address),
        None => true,
    }
}

/// The part of a stretch that is on an end's side of an edge, a pointer and a distance together.
#[tactic(auto, unfolding(crate::specs::Reached::stretch_at))]
fn stretch_at(reach: Reach, edge: u32, fill: &Fill) -> Option<Bounds>
    ensures { result ≡ Reached.stretch_at reach edge fill.now }
{
    let first = u32::from(fill.first) + u32::from(NO_DISTANCE);
    let last = u32::from(fill.last) + u32::from(NO_DISTANCE);
    match reach {
        Reach::Below if edge <= first => None,
        Reach::Below if edge <= last => Some(Bounds {
            first: fill.first,
            last: (edge - 1 - u32::from(NO_DISTANCE)) as u16,
        }),
        Reach::Above if last <= edge => None,
        Reach::Above if first <= edge => Some(Bounds {
            first: (edge + 1 - u32::from(NO_DISTANCE)) as u16,
            last: fill.last,
        }),
        _ => Some(Bounds {
            first: fill.first,
            last: fill.last,
        }),
    }
}

/// The part of a fill's stretch that it may be about: with some value of those that its pointer has. None where it is about no address.
#[tactic(auto, unfolding(crate::specs::Reached::reached_stretch))]
pub(crate) fn reached_stretch(pointers: &Pointers<Bounds>, fill: &Fill) -> Option<Bounds>
    ensures { result ≡ Reached.reached_stretch pointers.now fill.now }
{
    match fill.end {
        Some(end) => {
            let pointer = farthest(end.reach, pointers.get(end.pointer));
            stretch_at(end.reach, u32::from(pointer) + u32::from(end.offset), fill)
        }
        None => Some(Bounds {
            first: fill.first,
            last: fill.last,
        }),
    }
}

#[tactic(auto, unfolding(crate::specs::Fills::is_surely_reached))]
fn is_surely_reached(end: FillEnd, pointers: &Pointers<Bounds>, address: u16) -> bool
    ensures { result ≡ Fills.is_surely_reached end pointers.now address }
{
    is_reached(end, nearest(end.reach, pointers.get(end.pointer)), address)
}

fn surely_reaches(end: Option<FillEnd>, pointers: &Pointers<Bounds>, address: u16) -> bool
    ensures { result ≡ Fills.surely_reaches end pointers.now address }
{
    match end {
        Some(end) => is_surely_reached(end, pointers, address),
        None => true,
    }
}

/// Whether an address is in a fill for sure, whatever values its pointer has.
#[tactic(auto, unfolding(crate::specs::Fills::is_in_extent))]
pub fn is_in_extent(pointers: &Pointers<Bounds>, fill: &Fill, address: u16) -> bool
    ensures { result ≡ Fills.is_in_extent pointers.now fill.now address }
{
    fill.first <= address && address <= fill.last && surely_reaches(fill.end, pointers, address)
}

#[tactic(auto, unfolding(crate::specs::Fills::cut_by_fill))]
fn cut_by_fill(
    pointers: &Pointers<Bounds>,
    fill: &Fill,
    address: u16,
    value: StridedInterval,
) -> StridedInterval
    ensures { result ≡ Fills.cut_by_fill pointers.now fill.now address value }
{
    if is_in_extent(pointers, fill, address) {
        cut_or_same(value, bounds(fill.lo, fill.hi))
    } else {
        value
    }
}

fn cut_in_turn(
    pointers: &Pointers<Bounds>,
    fills: &[Fill],
    address: u16,
    value: StridedInterval,
) -> StridedInterval
    ensures { result ≡ Fills.cut_by_fills pointers.now fills.now address value }
{
    let mut value = value;
    for fill in fills {
        value = cut_by_fill(pointers, fill, address, value);
    }
    value
}

/// What is known of a byte without a cell by fills: the value, cut in turn to each fill that has the address for sure. A cut that
/// leaves nothing is left out.
#[tactic(auto, using(crate::proofs::FillLaws::cut_by_fills_sound))]
pub fn cut_by_fills(
    pointers: &Pointers<Bounds>,
    fills: &[Fill],
    address: u16,
    value: StridedInterval,
) -> StridedInterval
    ensures exact { result ≡ Fills.cut_by_fills pointers.now fills.now address value }
    ensures sound { IsSoundByFills pointers.now fills.now address value result }
{
    cut_in_turn(pointers, fills, address, value)
}

fn grown(value: StridedInterval, fill: Fill) -> Fill
    ensures { result ≡ Fills.grown value fill }
{
    Fill {
        lo: fill.lo.min(value.lo),
        hi: fill.hi.max(value.hi),
        ..fill
    }
}

/// The distance that has one address more than a distance of 0.
fn one_more(reach: Reach) -> u16
    ensures { result ≡ Fills.one_more reach }
{
    match reach {
        Reach::Below => NO_DISTANCE + 1,
        Reach::Above => NO_DISTANCE - 1,
    }
}

fn ends_at(through: Option<Pointer>, end: FillEnd) -> bool
    ensures { result ≡ Fills.ends_at through end }
{
    match through {
        Some(pointer) => is_same(pointer, end.pointer) && end.offset == NO_DISTANCE,
        None => false,
    }
}

#[tactic(auto, using(crate::proofs::AddressLaws::some_of_none, crate::proofs::AddressLaws::some_of_found, crate::proofs::AddressLaws::some_of_next), unfolding(crate::specs::Fills::is_touched))]
fn is_touched(stored: AddressSet, fill: &Fill) -> bool
    ensures { result ≡ Fills.is_touched stored fill.now }
{
    for address in fill.first.max(stored.first)..=fill.last.min(stored.last) {
        if is_in(stored, address) {
            return true;
        }
    }
    false
}

#[tactic(auto, unfolding(crate::specs::Fills::grown_if_touched))]
fn grown_if_touched(cells: &[Cell], stored: AddressSet, value: StridedInterval, fill: Fill) -> Fill
    ensures { result ≡ Fills.grown_if_touched cells.now stored value fill }
{
    if !is_to_cell(cells, stored) && is_touched(stored, &fill) {
        grown(value, fill)
    } else {
        fill
    }
}

#[tactic(auto, unfolding(crate::specs::Fills::filled))]
fn after_store(
    cells: &[Cell],
    stored: AddressSet,
    through: Option<Pointer>,
    value: StridedInterval,
    fill: Fill,
) -> Fill
    ensures { result ≡ Fills.filled cells.now stored through value fill }
{
    match fill.end {
        Some(end) if ends_at(through, end) => Fill {
            end: Some(FillEnd {
                offset: one_more(end.reach),
                ..end
            }),
            ..grown(value, fill)
        },
        _ => grown_if_touched(cells, stored, value, fill),
    }
}

/// A fill after a store of a value to one of the addresses, through a pointer where there is one. A fill that ends at this pointer
/// goes one address further; another one grows where the store may reach it, but not in a cell. The cells are those after the store.
#[tactic(auto, using(crate::proofs::FillLaws::filled_sound))]
pub fn filled(
    cells: &[Cell],
    stored: AddressSet,
    through: Option<Pointer>,
    value: StridedInterval,
    fill: Fill,
) -> Fill
    ensures exact { result ≡ Fills.filled cells.now stored through value fill }
    ensures sound { IsSoundStore cells.now stored through value fill result }
{
    after_store(cells, stored, through, value, fill)
}

/// The address of the stretch that is reached if one is.
fn near_end(reach: Reach, fill: &Fill) -> u16
    ensures { result ≡ Fills.near_end reach fill.now }
{
    match reach {
        Reach::Below => fill.first,
        Reach::Above => fill.last,
    }
}

/// The fill with its extent, and no end. `None` where the extent is empty.
#[tactic(auto, unfolding(crate::specs::Fills::fixed_at, crate::specs::Fills::is_surely_reached, crate::specs::Fills::is_reached))]
pub(crate) fn fixed_at(end: FillEnd, pointers: &Pointers<Bounds>, fill: Fill) -> Option<Fill>
    ensures { result ≡ Fills.fixed_at end pointers.now fill }
{
    if !is_surely_reached(end, pointers, near_end(end.reach, &fill)) {
        return None;
    }
    let pointer = nearest(end.reach, pointers.get(end.pointer));
    let edge = u32::from(pointer) + u32::from(end.offset);
    Some(match end.reach {
        Reach::Below => Fill {
            last: u32::from(fill.last).min(edge.saturating_sub(32_769)) as u16,
            end: None,
            ..fill
        },
        Reach::Above => Fill {
            first: u32::from(fill.first).max((edge + 1).saturating_sub(32_768)) as u16,
            end: None,
            ..fill
        },
    })
}

#[tactic(auto, unfolding(crate::specs::Fills::written))]
fn after_write(pointer: Pointer, pointers: &Pointers<Bounds>, fill: Fill) -> Option<Fill>
    ensures { result ≡ Fills.written pointer pointers.now fill }
{
    match fill.end {
        Some(end) if is_same(pointer, end.pointer) => fixed_at(end, pointers, fill),
        _ => Some(fill),
    }
}

/// A fill as a pointer gets any other value: one that ends there is fixed at its extent, by the pointers' bounds before. `None` where
/// that is empty.
#[tactic(auto, using(crate::proofs::FillLaws::written_sound))]
pub fn written(pointer: Pointer, pointers: &Pointers<Bounds>, fill: Fill) -> Option<Fill>
    ensures exact { result ≡ Fills.written pointer pointers.now fill }
    ensures sound { IsSoundWrite pointer pointers.now fill result }
{
    after_write(pointer, pointers, fill)
}

fn with_offset(end: FillEnd, offset: u16, fill: Fill) -> Fill
    ensures { result ≡ Fills.with_offset end offset fill }
{
    Fill {
        end: Some(FillEnd { offset, ..end }),
        ..fill
    }
}

#[tactic(auto, unfolding(crate::specs::Fills::raised))]
fn after_rise(pointer: Pointer, by: u16, pointers: &Pointers<Bounds>, fill: Fill) -> Option<Fill>
    ensures { result ≡ Fills.raised pointer by pointers.now fill }
{
    let end = match fill.end {
        Some(end) if is_same(pointer, end.pointer) => end,
        _ => return Some(fill),
    };
    if by <= end.offset {
        Some(with_offset(end, end.offset - by, fill))
    } else {
        fixed_at(end, pointers, fill)
    }
}

/// A fill as a pointer gets so much more, for all its values: of one that ends there the distance is so much less. Where the distance
/// would be below -32,768 it is as after any other write.
#[tactic(auto, using(crate::proofs::FillLaws::raised_sound))]
pub fn raised(pointer: Pointer, by: u16, pointers: &Pointers<Bounds>, fill: Fill) -> Option<Fill>
    ensures exact { result ≡ Fills.raised pointer by pointers.now fill }
    ensures sound { IsSoundRise pointer by pointers.now fill result }
{
    after_rise(pointer, by, pointers, fill)
}

#[tactic(auto, unfolding(crate::specs::Fills::lowered))]
fn after_fall(pointer: Pointer, by: u16, pointers: &Pointers<Bounds>, fill: Fill) -> Option<Fill>
    ensures { result ≡ Fills.lowered pointer by pointers.now fill }
{
    let end = match fill.end {
        Some(end) if is_same(pointer, end.pointer) => end,
        _ => return Some(fill),
    };
    match end.offset.checked_add(by) {
        Some(offset) => Some(with_offset(end, offset, fill)),
        None => fixed_at(end, pointers, fill),
    }
}

/// A fill as a pointer gets so much less, for all its values: of one that ends there the distance is so much more. Where the distance
/// would be above 32,767 it is as after any other write.
#[tactic(auto, using(crate::proofs::FillLaws::lowered_sound))]
pub fn lowered(pointer: Pointer, by: u16, pointers: &Pointers<Bounds>, fill: Fill) -> Option<Fill>
    ensures exact { result ≡ Fills.lowered pointer by pointers.now fill }
    ensures sound { IsSoundFall pointer by pointers.now fill result }
{
    after_fall(pointer, by, pointers, fill)
}
