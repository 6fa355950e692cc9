//! What to refine where a pointer is kept in RAM, or a key cell is lost.

use crate::cells::{key_cells, pointer_cells, unknown_stores};
use crate::plans::{FailurePoint, plan_loops, plan_near};
use gb_dataflow::loops::pointers_read;
use gb_dataflow::plan::{Edit, Plan, unless_taken_back};
use gb_dataflow::register_set::RegisterSet;
use gb_dataflow::types::{Run, RunProcedure, Spot};
use gb_dataflow::ways::Ways;
use gb_dataflow::{Rules, cell_at};
use std::alloc::{AllocError, Global};

/// Whether a procedure is entered with a cell known, and left with several values in it.
fn joins_cell(run: &Run<'_>, procedure: &RunProcedure, cell: u16) -> bool {
    let Some(exit) = &procedure.exit else {
        return false;
    };
    let Some(entry) = procedure.entry else {
        return false;
    };
    match run.nodes.get(entry) {
        Some(node) => {
            let before = cell_at(cell, node.state.cells());
            let behind = cell_at(cell, exit.cells());
            before.lo == before.hi && behind.lo < behind.hi
        }
        None => false,
    }
}

/// A procedure that leaves by different values of a key cell, the innermost one, is followed in its callers, or where it
/// comes in between: its exit is one state, in which they are joined.
pub(crate) fn part_exits(alloc: Global, run: &Run<'_>) -> Result<Option<Plan>, AllocError> {
    if run.rules() == Rules::Simple {
        return Ok(None);
    }
    let mut target = None;
    for cell in run.configuration.key_cells.iter() {
        for procedure in &run.procedures {
            if joins_cell(run, procedure, *cell) {
                target = Some(procedure.key.point());
            }
        }
    }
    match target {
        Some(target) if !run.configuration.inlined.contains(&target) => {
            let plan = Plan::of(alloc, Edit::Inline(target))?;
            Ok(unless_taken_back(run, plan))
        }
        _ => Ok(None),
    }
}

/// A pointer that isn't known is stored in cells, as one that was read from a table by an index: the cells that it comes from
/// become key cells too, or what it is computed from is told apart there.
pub(crate) fn plan_stored(
    alloc: Global,
    run: &Run<'_>,
    spot: Spot,
    wanted: &RegisterSet,
) -> Result<Option<Plan>, AllocError> {
    let stores = unknown_stores(alloc, run, spot, wanted)?;
    for store in &stores {
        let stored = RegisterSet::of(&[store.register]);
        if let Some(plan) = key_cells(alloc, run, store.spot, &stored)? {
            return Ok(Some(plan));
        }
    }
    for store in &stores {
        let trouble = FailurePoint {
            wanted: RegisterSet::of(&[store.register]),
            is_jump: false,
            is_kept_in_ram: true,
            is_bound_wanted: false,
            is_array_sought: false,
        };
        if let Some(plan) = plan_near(alloc, run, store.spot, &trouble)? {
            return Ok(Some(plan));
        }
    }
    Ok(None)
}

/// A pointer is kept in RAM, or one by which the loop around the spot reads, as a text's up to its 0: the cells where it is kept
/// become key cells, and what leaves with several values of them is followed where it is called. By the rules of version 3.
pub(crate) fn plan_kept(
    alloc: Global,
    run: &Run<'_>,
    spot: Spot,
    wanted: &RegisterSet,
    is_kept_in_ram: bool,
) -> Result<Option<Plan>, AllocError> {
    if run.rules() == Rules::Simple {
        return Ok(None);
    }
    let ways = Ways::of(alloc, run, spot.procedure)?;
    let read = pointers_read(run, &ways, spot)?;
    let is_read_kept = !pointer_cells(alloc, run, spot, &read)?.is_empty();
    if is_read_kept && let Some(plan) = key_cells(alloc, run, spot, &read)? {
        return Ok(Some(plan));
    }
    if is_kept_in_ram && let Some(plan) = key_cells(alloc, run, spot, wanted)? {
        return Ok(Some(plan));
    }
    if is_kept_in_ram || is_read_kept {
        part_exits(alloc, run)
    } else {
        Ok(None)
    }
}

/// A pointer comes from cells that a loop has written among others, as one that copies what variables begin with: the rounds
/// of that loop are told apart.
pub(crate) fn plan_written(
    alloc: Global,
    run: &Run<'_>,
    spot: Spot,
    wanted: &RegisterSet,
) -> Result<Option<Plan>, AllocError> {
    if run.rules() == Rules::Simple || pointer_cells(alloc, run, spot, wanted)?.is_empty() {
        Ok(None)
    } else {
        plan_loops(alloc, run, &run.killers)
    }
}
