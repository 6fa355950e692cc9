//! The memory cells of abstract states: one gets a value, or some are dropped.

ghost use Rattle.std.specs.Prelude.{◌≡◌, ◌+◌, ◌≤◌, ◌++◌, ◌||◌, nat_lt, length};
ghost use Rattle.std.specs.List.{filter, list_all, list_any};
ghost use Rattle.arrayvec.specs.ArrayVec.{array_vec_len};
ghost use Rattle.gb_domain.specs.Limits.{cell_room};
ghost use Rattle.gb_abs.specs.Cells.{is_below, is_above, is_at, is_outside, entered, with_cell, without_cells, common_origin, of_interval, widened, widened_at, widened_cells, IsEntryInOrder, IsDropInOrder, IsWideningInOrder};
ghost use Rattle.gb_abs.specs.Sound.{IsSoundEntry, IsSoundDrop, IsSoundWidening};

use crate::covering::covers_origin;
use crate::span::Span;
use arrayvec::ArrayVec;
use gb_domain::interval::{StridedInterval, join};
use gb_domain::types::{Abs, Cell, Origin, Rules, Val};
use gb_domain::values::interval_of;

/// The most cells that a state holds by any rules.
const CELLS: usize = 64;

/// The state with other cells. All else stays.
fn with_cells(state: &Abs, cells: ArrayVec<Cell, 64>) -> Abs
    ensures { result ≡ record state.now { cells = cells.items } }
{
    let mut items = ArrayVec::new();
    if items.try_extend_from_slice(state.items()).is_err() {
        unreachable!();
    }
    Abs::of_all_parts(
        *state.core(),
        items,
        cells,
        *state.relations(),
        state.summary().copied(),
    )
}

/// Appends the cells below an address. There must be room.
fn append_below(cells: &mut ArrayVec<Cell, 64>, address: u16, from: &[Cell])
    requires { array_vec_len cells.old + length (filter (is_below address) from.now) ≤ 64 }
    ensures { cells.new.items ≡ cells.old.items ++ filter (is_below address) from.now }
{
    for cell in from {
        if cell.address < address {
            cells.push(*cell);
        }
    }
}

/// Appends the cells above an address. There must be room.
fn append_above(cells: &mut ArrayVec<Cell, 64>, address: u16, from: &[Cell])
    requires { array_vec_len cells.old + length (filter (is_above address) from.now) ≤ 64 }
    ensures { cells.new.items ≡ cells.old.items ++ filter (is_above address) from.now }
{
    for cell in from {
        if cell.address > address {
            cells.push(*cell);
        }
    }
}

/// The cells with this one in its place. There must be room.
#[tactic(auto, unfolding(crate::specs::Cells::entered))]
fn entered(cell: Cell, held: &[Cell]) -> ArrayVec<Cell, 64>
    requires { length (entered cell held.now) ≤ 64 }
    ensures { result.items ≡ entered cell held.now }
{
    let mut cells = ArrayVec::new();
    append_below(&mut cells, cell.address, held);
    cells.push(cell);
    append_above(&mut cells, cell.address, held);
    cells
}

fn is_held(address: u16, held: &[Cell]) -> bool
    ensures { result ≡ list_any (is_at address) held.now }
{
    held.iter().any(|cell| cell.address == address)
}

/// Whether a cell at an address finds its place: one there goes, or there is room.
fn has_place(room: usize, address: u16, held: &[Cell]) -> bool
    ensures { result ≡ (list_any (is_at address) held.now || nat_lt (length held.now) room) }
{
    held.len() < room || is_held(address, held)
}

/// The state with a cell in its place, if it finds one.
#[tactic(auto, using(crate::proofs::CellLaws::entered_fits), unfolding(crate::specs::Cells::with_cell))]
fn entered_or_same(rules: Rules, state: &Abs, address: u16, val: Val) -> Abs
    ensures { result ≡ record state.now { cells = with_cell (cell_room rules) (record { address = address; val = val }) state.now.cells } }
{
    if has_place(rules.cell_room(), address, state.cells()) {
        with_cells(state, entered(Cell { address, val }, state.cells()))
    } else {
        state.with_core(*state.core())
    }
}

/// The byte at an address gets a value. Where as many cells are held as there is room for and none of them is there, nothing
/// is known of the byte, and the state stays.
#[tactic(auto, using(crate::proofs::StorageLaws::with_cell_sound, crate::proofs::CellLaws::with_cell_ordered))]
pub fn with_cell(rules: Rules, state: &Abs, address: u16, val: Val) -> Abs
    ensures exact { result ≡ record state.now { cells = with_cell (cell_room rules) (record { address = address; val = val }) state.now.cells } }
    ensures sound { IsSoundEntry address val state.now result }
    ensures ordered { IsEntryInOrder (record { address = address; val = val }) state.now.cells result.cells }
{
    entered_or_same(rules, state, address, val)
}

/// Whether all of the cells are below an address.
fn are_below(address: u16, held: &[Cell]) -> bool
    ensures { result ≡ list_all (is_below address) held.now }
{
    held.iter().all(|cell| cell.address < address)
}

/// Does what `with_cell` does, in place.
#[tactic(auto, using(crate::proofs::CellLaws::entered_fits, crate::proofs::CellLaws::entered_last), unfolding(crate::specs::Cells::with_cell))]
pub fn put_cell(rules: Rules, address: u16, val: Val, state: &mut Abs)
    ensures { state.new ≡ record state.old { cells = with_cell (cell_room rules) (record { address = address; val = val }) state.old.cells } }
{
    let cell = Cell { address, val };
    if has_place(rules.cell_room(), address, state.cells()) {
        if state.cells().len() < CELLS && are_below(address, state.cells()) {
            state.push_cell(cell);
        } else {
            let cells = entered(cell, state.cells());
            state.set_cells(cells);
        }
    }
}

fn is_outside(first: u16, last: u16, cell: &Cell) -> bool
    ensures { result ≡ is_outside first last cell.now }
{
    cell.address < first || last < cell.address
}

/// The state without the cells from first to last.
#[tactic(auto, unfolding(crate::specs::Cells::without_cells))]
fn dropped(state: &Abs, first: u16, last: u16) -> Abs
    ensures { result ≡ record state.now { cells = without_cells first last state.now.cells } }
{
    let mut cells = ArrayVec::new();
    for cell in state.cells() {
        if is_outside(first, last, cell) {
            cells.push(*cell);
        }
    }
    with_cells(state, cells)
}

/// The bytes from first to last may be any: their cells are dropped.
#[tactic(auto, using(crate::proofs::StorageLaws::without_cells_sound, crate::proofs::CellLaws::without_cells_ordered))]
pub fn without_cells(state: &Abs, first: u16, last: u16) -> Abs
    ensures exact { result ≡ record state.now { cells = without_cells first last state.now.cells } }
    ensures sound { IsSoundDrop first last state.now result }
    ensures ordered { IsDropInOrder state.now.cells result.cells }
{
    dropped(state, first, last)
}

/// What both are copies of.
fn common_origin(from: Option<Origin>, to: Option<Origin>) -> Option<Origin>
    ensures { result ≡ common_origin from to }
{
    if covers_origin(from, to) { to } else { None }
}

/// A value with the bounds and low bits of an interval.
fn of_interval(interval: StridedInterval, origin: Option<Origin>) -> Val
    ensures { result ≡ of_interval interval origin }
{
    Val {
        lo: interval.lo,
        hi: interval.hi,
        low_bits: interval.count,
        origin,
    }
}

/// The least interval that holds both values, by the rules of version 4 with the low bits that all of them have; a copy of what both
/// are copies of.
fn widened(is_whole: bool, val: Val, other: Val) -> Val
    ensures { result ≡ widened is_whole val other }
{
    let origin = common_origin(val.origin, other.origin);
    if is_whole {
        return of_interval(join(interval_of(val), interval_of(other)), origin);
    }
    let lo = if other.lo < val.lo { other.lo } else { val.lo };
    let hi = if val.hi < other.hi { other.hi } else { val.hi };
    Val {
        lo,
        hi,
        low_bits: 0,
        origin,
    }
}

fn widened_at(is_whole: bool, span: Span, val: Val, cell: Cell) -> Cell
    ensures { result ≡ widened_at is_whole span val cell }
{
    if span.counts(cell.address) {
        Cell {
            address: cell.address,
            val: widened(is_whole, cell.val, val),
        }
    } else {
        cell
    }
}

/// The state where the cells at addresses that count may hold another value too.
#[tactic(auto, unfolding(crate::specs::Cells::widened_cells))]
fn widened_or_same(state: &Abs, is_whole: bool, span: Span, val: Val) -> Abs
    ensures { result ≡ record state.now { cells = widened_cells is_whole span val state.now.cells } }
{
    let mut cells = ArrayVec::new();
    for cell in state.cells() {
        cells.push(widened_at(is_whole, span, val, *cell));
    }
    with_cells(state, cells)
}

/// One of the bytes at the addresses that count gets a value: each of their cells may hold it too.
#[tactic(auto, using(crate::proofs::WideningLaws::widened_sound, crate::proofs::WideningLaws::widened_ordered))]
pub fn widened_cells(state: &Abs, is_whole: bool, span: Span, val: Val) -> Abs
    ensures exact { result ≡ record state.now { cells = widened_cells is_whole span val state.now.cells } }
    ensures sound { IsSoundWidening span val state.now result }
    ensures ordered { IsWideningInOrder val state.now.cells result.cells }
{
    widened_or_same(state, is_whole, span, val)
}
