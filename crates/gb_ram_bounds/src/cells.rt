//! Memory cells: what a state says of single bytes.

ghost use Rattle.std.specs.Prelude.{◌≡◌};
ghost use Rattle.gb_ram_bounds.specs.Cells as Cells;

use gb_domain::StridedInterval;
use gb_domain::types::Cell;
use gb_domain::values::interval_of;

/// What the cell at an address says of its byte, origins apart. `None` where there is no cell.
pub fn cell_at(cells: &[Cell], address: u16) -> Option<StridedInterval>
    ensures { result ≡ Cells.cell_at cells.now address }
{
    for cell in cells {
        if cell.address == address {
            return Some(interval_of(cell.val));
        }
    }
    None
}

/// Whether there is a cell at an address.
#[tactic(auto, unfolding(crate::specs::Cells::has_cell))]
pub fn has_cell(cells: &[Cell], address: u16) -> bool
    ensures { result ≡ Cells.has_cell cells.now address }
{
    cell_at(cells, address).is_some()
}
