//! Items and cells that stand in bytes that have been checked, one behind the other.

ghost use Rattle.std.specs.Prelude.{◌≡◌, ◌+◌, ◌*◌, ◌≤◌, ◌++◌, length};
ghost use Rattle.gb_states.specs.Checked.{listed_items, cell_of, listed_cells};

use crate::fields::val_of;
use gb_domain::types::{Abs, Cell};

/// The state gets these items more, three bytes each. All else stays. There must be room.
pub fn append_items(state: &mut Abs, bytes: &[u8])
    requires { 3 * length state.old.items + length bytes.now ≤ 765 }
    ensures { state.new ≡ record state.old { items = state.old.items ++ listed_items bytes.now } }
{
    if let [lo, hi, tag, rest @ ..] = bytes {
        state.push_item(val_of(*lo, *hi, *tag));
        append_items(state, rest);
    }
}

/// A cell by its bytes: its address, the low byte first, and its value.
#[inline(always)]
fn cell_of(low: u8, high: u8, lo: u8, hi: u8, tag: u8) -> Cell
    ensures { result ≡ cell_of low high lo hi tag }
{
    Cell {
        address: u16::from_le_bytes([low, high]),
        val: val_of(lo, hi, tag),
    }
}

/// The state gets these cells more, five bytes each. All else stays. There must be room.
pub fn append_cells(state: &mut Abs, bytes: &[u8])
    requires { 5 * length state.old.cells + length bytes.now ≤ 320 }
    ensures { state.new ≡ record state.old { cells = state.old.cells ++ listed_cells bytes.now } }
{
    if let [low, high, lo, hi, tag, rest @ ..] = bytes {
        state.push_cell(cell_of(*low, *high, *lo, *hi, *tag));
        append_cells(state, rest);
    }
}
