//! States that keep some memory cells alone.

use crate::relating::without_boxes;
use arrayvec::ArrayVec;
use gb_verify::{Abs, Cell, any};

/// The cells that say something and whose addresses are among these. Both are in order of address.
fn tracked_cells(cells: &[Cell], tracked: &[u16]) -> ArrayVec<Cell, 64> {
    let mut kept = ArrayVec::new();
    for cell in cells {
        if cell.val != any() && tracked.binary_search(&cell.address).is_ok() {
            let _ = kept.try_push(*cell);
        }
    }
    kept
}

/// The addresses from this one on; they are in order.
fn from_address(address: u16, tracked: &[u16]) -> &[u16] {
    match tracked {
        [first, rest @ ..] if *first < address => from_address(address, rest),
        _ => tracked,
    }
}

/// Whether all cells say something, and their addresses are among these. Both are in order of address.
fn are_tracked(cells: &[Cell], tracked: &[u16]) -> bool {
    let mut rest = tracked;
    for cell in cells {
        rest = from_address(cell.address, rest);
        match rest {
            [address, ..] if *address == cell.address && cell.val != any() => {}
            _ => return false,
        }
    }
    true
}

/// The state keeps the cells that say something and whose addresses are among these, which are in order, and the bounds of
/// pairs that say something.
pub fn keep_tracked(state: &mut Abs, tracked: &[u16]) {
    if !are_tracked(state.cells(), tracked) {
        let cells = tracked_cells(state.cells(), tracked);
        state.set_cells(cells);
    }
    let relations = without_boxes(&state.core().registers, state.relations());
    state.set_relations(relations);
}
