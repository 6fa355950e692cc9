//! Texts in RAM that are read up to their 0, and that the start-up copied there with other bytes, as of `char name[4] = "AAA"`: while
//! the copy isn't followed byte by byte, no byte is known to be the 0.

use crate::arrays::copied_at;
use crate::plans::{callers_of, plan_loops};
use gb_dataflow::gb_ops::op::Pointer;
use gb_dataflow::plan::{Edit, Plan, unless_taken_back};
use gb_dataflow::register_set::RegisterSet;
use gb_dataflow::sources::loaded_by;
use gb_dataflow::spots::{op_at, pointed_by, points_to_rom};
use gb_dataflow::types::{Run, Spot};
use gb_dataflow::ways::Ways;
use gb_dataflow::{Rules, is_ram};
use std::alloc::{AllocError, Global};
use std::collections::BTreeSet;

/// The most bytes that are sought up to a text's 0, a line of the screen.
const LINE: u16 = 20;

/// The most instructions of a loop that copies.
const COPY: usize = 12;

/// The addresses in RAM that a pair is known to hold at some spot.
fn add_known(
    run: &Run<'_>,
    spot: Spot,
    pointer: Pointer,
    starts: &mut BTreeSet<u16>,
) -> Result<(), AllocError> {
    for number in run.nodes_at(spot) {
        if let Some(node) = run.nodes.get(*number)
            && let Some(address) = pointed_by(node, pointer)
            && is_ram(address)
        {
            starts.insert(address)?;
        }
    }
    Ok(())
}

/// Where a text in RAM may begin that an instruction reads: what its pair is known to hold there, and at the calls of its procedure.
fn add_starts(
    alloc: Global,
    run: &Run<'_>,
    spot: Spot,
    starts: &mut BTreeSet<u16>,
) -> Result<(), AllocError> {
    let pointer = op_at(run, spot).and_then(|op| loaded_by(op, &RegisterSet::all()));
    let Some(pointer) = pointer else {
        return Ok(());
    };
    add_known(run, spot, pointer, starts)?;
    for caller in &callers_of(alloc, run, spot.procedure)? {
        add_known(run, *caller, pointer, starts)?;
    }
    Ok(())
}

/// Where the texts in RAM may begin that are read at a spot, or in the innermost loop around it.
fn starts_of(
    alloc: Global,
    run: &Run<'_>,
    ways: &Ways,
    spot: Spot,
) -> Result<BTreeSet<u16>, AllocError> {
    let mut starts = BTreeSet::new(alloc);
    add_starts(alloc, run, spot, &mut starts)?;
    let loops = ways.loops(spot.point)?;
    if let Some(around) = loops.first() {
        for point in around.iter() {
            let at = Spot {
                point: *point,
                ..spot
            };
            add_starts(alloc, run, at, &mut starts)?;
        }
    }
    Ok(starts)
}

/// Whether the innermost loop around a spot is a short one that reads ROM.
fn is_copy_from_rom(alloc: Global, run: &Run<'_>, spot: Spot) -> Result<bool, AllocError> {
    let ways = Ways::of(alloc, run, spot.procedure)?;
    let loops = ways.loops(spot.point)?;
    let Some(around) = loops.first() else {
        return Ok(false);
    };
    Ok(
        around.len() <= COPY
            && around.iter().any(|point| {
                let at = Spot {
                    point: *point,
                    ..spot
                };
                op_at(run, at)
                    .and_then(|op| loaded_by(op, &RegisterSet::all()))
                    .is_some_and(|pointer| points_to_rom(run, at, pointer))
            }),
    )
}

/// The loops that copied the first byte of a text from ROM with others, and the bytes from there on that they copied.
fn add_copies(
    alloc: Global,
    run: &Run<'_>,
    start: u16,
    copies: &mut BTreeSet<Spot>,
    cells: &mut BTreeSet<u16>,
) -> Result<(), AllocError> {
    for node in &run.nodes {
        if let Some(span) = copied_at(run, node, start)
            && !copies.contains(&node.spot())
            && is_copy_from_rom(alloc, run, node.spot())?
        {
            copies.insert(node.spot())?;
            for cell in start..=span.last.min(start.saturating_add(LINE)) {
                cells.insert(cell)?;
            }
        }
    }
    Ok(())
}

/// For a text in RAM that isn't known to end: the rounds of the loop that copied it there are told apart, and its bytes are tracked.
pub(crate) fn plan_text(
    alloc: Global,
    run: &Run<'_>,
    ways: &Ways,
    spot: Spot,
) -> Result<Option<Plan>, AllocError> {
    if run.rules() == Rules::Simple {
        return Ok(None);
    }
    let mut copies = BTreeSet::new(alloc);
    let mut cells = BTreeSet::new(alloc);
    for start in &starts_of(alloc, run, ways, spot)? {
        add_copies(alloc, run, *start, &mut copies, &mut cells)?;
    }
    let Some(mut plan) = plan_loops(alloc, run, &copies)? else {
        return Ok(None);
    };
    for cell in &cells {
        plan.add(Edit::Track(*cell))?;
    }
    Ok(unless_taken_back(run, plan))
}
