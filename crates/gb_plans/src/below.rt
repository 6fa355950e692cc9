//! Which of the tracked cells the procedures of a run, and what they call, may read or write: by the others none has to be parted.

use gb_dataflow::configuration::{Configuration, TouchedCell};
use gb_dataflow::types::{Run, RunProcedure};
use std::alloc::{AllocError, Global};

/// The bit of a tracked cell, by its place among them; none where there are more than 64.
fn bit_of(cells: &[u16], cell: u16) -> u64 {
    match cells.binary_search(&cell) {
        Ok(place) => match u32::try_from(place) {
            Ok(place) => 1u64.checked_shl(place).unwrap_or(0),
            Err(_) => 0,
        },
        Err(_) => 0,
    }
}

/// The bits of the cells that a procedure and those that it calls may write.
fn written(cells: &[u16], procedure: &RunProcedure) -> u64 {
    let mut bits = 0;
    for cell in cells {
        let is_written = procedure
            .ranges
            .as_slice()
            .iter()
            .any(|range| range.first <= *cell && *cell <= range.last);
        if is_written {
            bits |= bit_of(cells, *cell);
        }
    }
    bits
}

/// By procedure, the bits of the cells that it may read or write itself, or write by what it calls.
fn own_touched(alloc: Global, run: &Run<'_>, cells: &[u16]) -> Result<Vec<u64>, AllocError> {
    let mut touched = Vec::new(alloc);
    for procedure in &run.procedures {
        touched.push(written(cells, procedure))?;
    }
    for read in &run.reads {
        if let Some(bits) = touched.get_mut(read.procedure) {
            *bits |= bit_of(cells, read.cell);
        }
    }
    Ok(touched)
}

/// Procedures take over what those that they call may touch; whether that is new for one.
fn inherit(run: &Run<'_>, touched: &mut Vec<u64>) -> bool {
    let mut is_new = false;
    for call in &run.calls {
        let below = touched.get(call.callee).copied().unwrap_or(0);
        if let Some(bits) = touched.get_mut(call.caller) {
            is_new = is_new || *bits | below != *bits;
            *bits |= below;
        }
    }
    is_new
}

/// A configuration learns from a run which tracked cells the procedures of its targets may touch, besides what it knows.
pub fn learn_touched(
    alloc: Global,
    run: &Run<'_>,
    configuration: &mut Configuration,
) -> Result<(), AllocError> {
    let mut cells = Vec::new(alloc);
    for cell in &run.configuration.tracked {
        cells.push(*cell)?;
    }
    let mut touched = own_touched(alloc, run, &cells)?;
    for _ in 0..run.procedures.len() {
        if !inherit(run, &mut touched) {
            break;
        }
    }
    for (procedure, bits) in run.procedures.iter().zip(touched.iter()) {
        let target = procedure.key.point();
        configuration.known_targets.insert(target)?;
        for cell in &cells {
            if *bits & bit_of(&cells, *cell) != 0 {
                configuration.touched.insert(TouchedCell {
                    target,
                    cell: *cell,
                })?;
            }
        }
    }
    Ok(())
}
