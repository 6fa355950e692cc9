//! What states know of bytes in RAM.

ghost use Rattle.std.specs.Prelude.{◌≡◌, ◌&&◌};
ghost use Rattle.gb_abs_effects.specs.Below.gb_abs.Covering.{covers_items};
ghost use Rattle.gb_product.specs.Covering as Covering;
ghost use Rattle.gb_summaries.specs.Below.gb_relations.Transfer.{values_of};

use crate::states::States;
use gb_abs_effects::{cell_at, covers_items, covers_val};
use gb_domain::StridedInterval;
use gb_domain::program::Program;
use gb_domain::summary::Summary;
use gb_domain::types::{Abs, Cell, Val};
use gb_summaries::{Values, has_cell, known_byte};

/// A value that is no copy.
pub fn uncopied(value: StridedInterval) -> Val
    ensures { result ≡ Covering.uncopied value }
{
    Val {
        lo: value.lo,
        hi: value.hi,
        low_bits: value.count,
        origin: None,
    }
}

/// What is known of the byte at an address: what its cell says; else, no copy, what the facts that hold and the fills leave of any
/// byte.
#[tactic(auto, unfolding(crate::specs::Covering::byte_in))]
pub fn byte_in(
    program: &Program<'_>,
    values: &Values,
    cells: &[Cell],
    summary: &Summary,
    address: u16,
) -> Val
    ensures { result ≡ Covering.byte_in program.now values.now cells.now summary.now address }
{
    if has_cell(cells, address) {
        cell_at(address, cells)
    } else {
        uncopied(known_byte(program.facts, values, cells, summary, address))
    }
}

/// What is known of the byte at an address in states.
pub fn byte_of(program: &Program<'_>, states: &States<'_>, address: u16) -> Val
    ensures { result ≡ Covering.byte_in program.now (values_of states.now.core.now.registers states.now.relations.now.pairs) states.now.lists.now.cells states.now.summary.now address }
{
    byte_in(
        program,
        &states.values(),
        states.lists.cells(),
        states.summary,
        address,
    )
}

#[tactic(auto, unfolding(crate::specs::Covering::covers_cells))]
fn covers_cells_of(
    program: &Program<'_>,
    values: &Values,
    cells: &[Cell],
    summary: &Summary,
    kept: &[Cell],
) -> bool
    ensures { result ≡ Covering.covers_cells program.now values.now cells.now summary.now kept.now }
{
    kept.iter().all(|cell| {
        covers_val(
            &byte_in(program, values, cells, summary, cell.address),
            &cell.val,
        )
    })
}

/// Whether cells stand for what states know of bytes.
pub fn covers_cells(program: &Program<'_>, states: &States<'_>, kept: &[Cell]) -> bool
    ensures { result ≡ Covering.covers_cells program.now (values_of states.now.core.now.registers states.now.relations.now.pairs) states.now.lists.now.cells states.now.summary.now kept.now }
{
    covers_cells_of(
        program,
        &states.values(),
        states.lists.cells(),
        states.summary,
        kept,
    )
}

/// Whether nothing is said of bytes but by cells.
fn has_cells_alone(summary: &Summary) -> bool
    ensures { result ≡ Covering.has_cells_alone summary.now }
{
    summary.level() == 0 && summary.fills().is_empty()
}

/// Whether the items and cells of a state stand for what others hold. Where those say nothing of bytes but by cells, cells alone are
/// compared.
#[tactic(auto, using(crate::proofs::SilenceLaws::covers_cells_alone))]
pub fn covers_lists(program: &Program<'_>, states: &States<'_>, claimed: &Abs) -> bool
    ensures { result ≡ (covers_items states.now.lists.now.items claimed.now.items && Covering.covers_cells program.now (values_of states.now.core.now.registers states.now.relations.now.pairs) states.now.lists.now.cells states.now.summary.now claimed.now.cells) }
{
    let (lists, summary) = (states.lists, states.summary);
    if has_cells_alone(summary) {
        gb_abs_effects::covers_lists(lists, claimed)
    } else {
        covers_items(lists.items(), claimed.items())
            && covers_cells(program, states, claimed.cells())
    }
}
