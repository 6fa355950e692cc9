//! Whether a node holds a state already: the checker's test, with both lists of cells gone through once where nothing but cells tells
//! of RAM.

use crate::basis::Basis;
use gb_verify::{
    Abs, Cell, States, Val, any, covers, covers_core, covers_relations, covers_said, covers_val,
};

/// The cells from an address on; they are in order of address.
pub(crate) fn from_address(address: u16, cells: &[Cell]) -> &[Cell] {
    match cells {
        [first, rest @ ..] if first.address < address => from_address(address, rest),
        _ => cells,
    }
}

/// Whether all that cells say of the bytes at their addresses is known of others too. Both are in order of address.
pub fn are_cells_known(cells: &[Cell], others: &[Cell]) -> bool {
    let mut rest = others;
    for cell in cells {
        rest = from_address(cell.address, rest);
        let known = match rest {
            [other, ..] if other.address == cell.address => other.val,
            _ => any(),
        };
        if !covers_val(&known, &cell.val) {
            return false;
        }
    }
    true
}

/// Whether there are as many bytes, and each is among the values of the other's.
pub fn are_items_known(items: &[Val], others: &[Val]) -> bool {
    items.len() == others.len()
        && items
            .iter()
            .zip(others)
            .all(|(item, other)| covers_val(other, item))
}

/// Whether a state stands for all that another one does.
pub fn is_covered(basis: &Basis<'_>, other: &Abs, state: &Abs) -> bool {
    let said = other.summary();
    if said.level() != 0 || !said.fills().is_empty() {
        return covers(&basis.program, other, state);
    }
    covers_core(basis.program.kind, other.core(), state.core())
        && are_items_known(state.items(), other.items())
        && are_cells_known(state.cells(), other.cells())
        && covers_relations(&basis.program, &States::of(other), state.relations())
        && covers_said(
            &basis.program,
            &States::of(other),
            state.cells(),
            state.summary(),
        )
}
