//! The memory cells behind a call.

ghost use Rattle.std.specs.Prelude.{◌≡◌, ◌≤◌, length, map, take, insert};
ghost use Rattle.std.specs.List.{filter};
ghost use Rattle.gb_domain.specs.Limits.{cell_room};
ghost use Rattle.gb_calls.specs.Resuming as Resuming;
ghost use Rattle.gb_calls.specs.Told as Told;

use crate::told::{Caller, cell_back};
use arrayvec::ArrayVec;
use gb_domain::types::{Cell, Origin, Range, Rules};
use gb_product::{Span, cell_at, is_own};

/// The most cells that a state holds by any rules.
const CELLS: usize = 64;

/// Whether an address lies in one of the ranges.
fn is_address_in(ranges: &[Range], address: u16) -> bool
    ensures { result ≡ Resuming.is_address_in ranges.now address }
{
    let span = Span::one(address);
    ranges
        .iter()
        .any(|range| span.is_inside(range.first, range.last))
}

pub(crate) fn is_in_ranges(ranges: &[Range], cell: &Cell) -> bool
    ensures { result ≡ Resuming.is_in_ranges ranges.now cell.now }
{
    is_address_in(ranges, cell.address)
}

/// The caller's cells that the callee may not write: those outside its ranges. There must be room.
fn outside(ranges: &[Range], cells: &[Cell]) -> ArrayVec<Cell, 64>
    requires { length cells.now ≤ 64 }
    ensures { result.items ≡ filter (Resuming.is_out_of_ranges ranges.now) cells.now }
{
    let mut kept = ArrayVec::new();
    for cell in cells {
        if !is_in_ranges(ranges, cell) {
            kept.push(*cell);
        }
    }
    kept
}

/// Where a cell belongs among others that are in order of address: before the first that is above it.
fn place_among(cell: &Cell, cells: &[Cell]) -> usize
    ensures within { result ≤ length cells.now }
    ensures place { Resuming.inserted cell.now cells.now ≡ insert cells.now result cell.now }
{
    for (place, held) in cells.iter().enumerate() {
        if cell.address < held.address {
            return place;
        }
    }
    cells.len()
}

/// Puts a cell in its place by address. Where 64 are held, the last of all falls.
fn put(cells: &mut ArrayVec<Cell, 64>, cell: Cell)
    ensures { cells.new.items ≡ take 64 (Resuming.inserted cell cells.old.items) }
{
    let place = place_among(&cell, cells.as_slice());
    if place < CELLS {
        cells.truncate(CELLS - 1);
        cells.insert(place, cell);
    }
}

/// The caller's cells outside the callee's ranges, and the exit's inside, as they are given back: the first 64 by address.
fn most_cells_back(caller: &Caller<'_>, ranges: &[Range], exit: &[Cell]) -> ArrayVec<Cell, 64>
    ensures { result.items ≡ take 64 (Resuming.all_cells_back (Told.cell_back caller.now.program.now caller.now.is_whole caller.now.kept.now.items caller.now.state.now) ranges.now caller.now.state.now.cells exit.now) }
{
    let mut cells = outside(ranges, caller.state.cells());
    for cell in exit {
        if is_in_ranges(ranges, cell) {
            put(&mut cells, cell_back(caller, *cell));
        }
    }
    cells
}

/// The cells after a return, as many as there is room for.
#[tactic(auto, using(crate::proofs::CellLaws::take_fewer), unfolding(crate::specs::Resuming::cells_back))]
pub(crate) fn cells_back(
    rules: Rules,
    caller: &Caller<'_>,
    ranges: &[Range],
    exit: &[Cell],
) -> ArrayVec<Cell, 64>
    ensures { result.items ≡ Resuming.cells_back (cell_room rules) (Told.cell_back caller.now.program.now caller.now.is_whole caller.now.kept.now.items caller.now.state.now) ranges.now caller.now.state.now.cells exit.now }
{
    let mut cells = most_cells_back(caller, ranges, exit);
    cells.truncate(rules.cell_room());
    cells
}

/// Those of the kept addresses at which the exit has a cell with just this copy.
#[tactic(auto, unfolding(crate::specs::Resuming::given_addresses))]
pub(crate) fn given_addresses(kept: &ArrayVec<u16, 16>, exit: &[Cell]) -> ArrayVec<u16, 16>
    ensures { result.items ≡ Resuming.given_addresses kept.now.items exit.now }
{
    let mut given = ArrayVec::new();
    for (number, address) in kept.as_slice().iter().enumerate() {
        if is_own(Origin::Kept(number as u8), cell_at(*address, exit)) {
            given.push(*address);
        }
    }
    given
}

/// How many cells lie in the ranges.
fn count_inside(ranges: &[Range], cells: &[Cell]) -> usize
    requires { length cells.now ≤ 64 }
    ensures count { result ≡ length (filter (Resuming.is_in_ranges ranges.now) cells.now) }
    ensures few { result ≤ 64 }
{
    let mut count = 0;
    for cell in cells {
        if is_in_ranges(ranges, cell) {
            count += 1;
        }
    }
    count
}

/// Whether a state holds all cells after a return: the caller's outside the ranges, and the exit's inside.
pub(crate) fn has_room(ranges: &[Range], caller: &[Cell], exit: &[Cell]) -> bool
    requires caller { length caller.now ≤ 64 }
    requires exit { length exit.now ≤ 64 }
    ensures { result ≡ Resuming.has_room ranges.now caller.now exit.now }
{
    outside(ranges, caller).len() + count_inside(ranges, exit) <= CELLS
}
