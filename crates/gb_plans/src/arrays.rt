//! Jumps whose index is loaded from an array in RAM, as `handlers[state[i]](i)`: what tells the array's bytes apart, and the loops
//! that filled them. By the rules of version 3.

use crate::cells::{Origins, all_origins_of, origins_of, span_at};
use crate::plans::{callers_of, is_known_by_calls, part, plan_loops};
use gb_dataflow::cause::{Cause, Failure, StackMisuse};
use gb_dataflow::configuration::TargetPlace;
use gb_dataflow::gb_ops::op::{Op, Operand, Pointer};
use gb_dataflow::limits::{FEW_VALUES, STEPS_BACK};
use gb_dataflow::loops::refine_loops;
use gb_dataflow::plan::{Edit, Plan, unless_empty};
use gb_dataflow::register_set::{REGISTERS, RegisterSet};
use gb_dataflow::slices::{SliceBy, SliceGoal, slice};
use gb_dataflow::sources::loaded_by;
use gb_dataflow::spots::{is_known, op_at, open_at};
use gb_dataflow::types::{Run, RunNode, Spot};
use gb_dataflow::ways::Ways;
use gb_dataflow::{Rules, Span, cell_at};
use std::alloc::{AllocError, Global};
use std::collections::BTreeSet;

/// The most bytes that a loop may fill if a state is kept for each of its rounds.
const FILLED: u16 = 512;

/// The registers that matter where a procedure begins, and aren't known there.
fn entering(origins: &Origins, number: usize) -> RegisterSet {
    let mut wanted = RegisterSet::empty();
    for entering in &origins.entries {
        if entering.procedure == number
            && let Some(register) = REGISTERS.get(entering.register)
        {
            wanted.insert(*register);
        }
    }
    wanted
}

/// A procedure is parted by those of some registers that each of its calls knows, A among them.
fn part_by_known(
    alloc: Global,
    run: &Run<'_>,
    number: usize,
    wanted: &RegisterSet,
) -> Result<Option<Plan>, AllocError> {
    let mut known = RegisterSet::empty();
    if let Some(procedure) = run.procedures.get(number)
        && let Some(entry) = procedure.entry
        && let Some(node) = run.nodes.get(entry)
    {
        for register in REGISTERS {
            if wanted.contains(register)
                && !is_known(node, register)
                && is_known_by_calls(alloc, run, procedure, register)?
            {
                known.insert(register);
            }
        }
    }
    part(alloc, run, number, &known)
}

/// A register is taken value by value in the straight-line code before a spot, so that others are known there.
fn slice_before(
    alloc: Global,
    run: &Run<'_>,
    spot: Spot,
    wanted: &RegisterSet,
    by: SliceBy,
) -> Result<Option<Plan>, AllocError> {
    let ways = Ways::of(alloc, run, spot.procedure)?;
    let sought = SliceGoal {
        wanted: *wanted,
        most: FEW_VALUES,
        by,
    };
    slice(alloc, run, &ways, spot, &sought)
}

/// What gets states of its own before a call, so that registers are known there: each value of a register, or each round of a loop.
fn plan_call(
    alloc: Global,
    run: &Run<'_>,
    call: Spot,
    wanted: &RegisterSet,
) -> Result<Option<Plan>, AllocError> {
    if let Some(plan) = slice_before(alloc, run, call, wanted, SliceBy::Single)? {
        return Ok(Some(plan));
    }
    let ways = Ways::of(alloc, run, call.procedure)?;
    refine_loops(alloc, run, &ways, call, false)
}

/// The values by which a table is read before the calls from which registers come.
fn plan_tables(
    alloc: Global,
    run: &Run<'_>,
    origins: &Origins,
) -> Result<Option<Plan>, AllocError> {
    for number in 0..run.procedures.len() {
        let wanted = entering(origins, number);
        if wanted.is_empty() {
            continue;
        }
        for call in &callers_of(alloc, run, number)? {
            if let Some(plan) = slice_before(alloc, run, *call, &wanted, SliceBy::Table)? {
                return Ok(Some(plan));
            }
        }
    }
    Ok(None)
}

/// The plan at the calls that some registers come from, the innermost procedure first.
fn plan_calls(alloc: Global, run: &Run<'_>, origins: &Origins) -> Result<Option<Plan>, AllocError> {
    let count = run.procedures.len();
    for behind in 0..count {
        let number = count.saturating_sub(behind).saturating_sub(1);
        let wanted = entering(origins, number);
        if wanted.is_empty() {
            continue;
        }
        if let Some(plan) = part_by_known(alloc, run, number, &wanted)? {
            return Ok(Some(plan));
        }
        for call in &callers_of(alloc, run, number)? {
            if let Some(plan) = plan_call(alloc, run, *call, &wanted)? {
                return Ok(Some(plan));
            }
        }
    }
    Ok(None)
}

/// What tells the addresses of a load apart, by its pointer: at the calls from which that comes, or else a value before the load.
fn plan_load(alloc: Global, run: &Run<'_>, load: Spot) -> Result<Option<Plan>, AllocError> {
    let Some(op) = op_at(run, load) else {
        return Ok(None);
    };
    let Some(pointer) = loaded_by(op, &RegisterSet::all()) else {
        return Ok(None);
    };
    let pointing = RegisterSet::of_pointer(pointer);
    if open_at(run, load, &pointing, true).is_empty() {
        return Ok(None);
    }
    let origins = origins_of(alloc, run, load, &pointing)?;
    match plan_calls(alloc, run, &origins)? {
        Some(plan) => Ok(Some(plan)),
        None => slice_before(alloc, run, load, &pointing, SliceBy::Single),
    }
}

/// What tells the bytes of the arrays apart from which something comes.
fn plan_loads(alloc: Global, run: &Run<'_>, origins: &Origins) -> Result<Option<Plan>, AllocError> {
    for load in &origins.ranged {
        if let Some(plan) = plan_load(alloc, run, *load)? {
            return Ok(Some(plan));
        }
    }
    Ok(None)
}

/// The addresses that an instruction at a node may store a known byte to, if there are at most as many as are tracked one by one.
fn filled_by(run: &Run<'_>, node: &RunNode) -> Option<Span> {
    let op = op_at(run, node.spot())?;
    let pointer = op.pointer()?;
    let is_known_byte = match op {
        Op::LoadImmediate(Operand::AtHl, _) => true,
        _ => is_known(node, op.stored()?),
    };
    let span = span_at(node, pointer);
    let more = span.last.saturating_sub(span.first);
    if is_known_byte && 0 < more && more < FILLED {
        Some(span)
    } else {
        None
    }
}

/// Whether a node fills one of some cells among others, of which nothing is known before.
fn fills(run: &Run<'_>, node: &RunNode, cells: &BTreeSet<u16>) -> bool {
    let Some(span) = filled_by(run, node) else {
        return false;
    };
    cells.iter().any(|cell| {
        let val = cell_at(*cell, node.state.cells());
        span.first <= *cell && *cell <= span.last && val.lo == 0 && val.hi == u8::MAX
    })
}

/// For a jump by a table whose index is loaded from an array in RAM: each byte of that array gets states of its own, at the load or at
/// the calls that lead there.
pub(crate) fn plan_array(
    alloc: Global,
    run: &Run<'_>,
    spot: Spot,
    wanted: &RegisterSet,
) -> Result<Option<Plan>, AllocError> {
    if run.rules() == Rules::Simple {
        return Ok(None);
    }
    let origins = origins_of(alloc, run, spot, wanted)?;
    if !origins.is_by_table {
        return Ok(None);
    }
    if let Some(plan) = plan_loads(alloc, run, &origins)? {
        return Ok(Some(plan));
    }
    if let Some(plan) = plan_tables(alloc, run, &origins)? {
        return Ok(Some(plan));
    }
    // What the calls know by now may come from an array too.
    let all = all_origins_of(alloc, run, spot, wanted)?;
    if all.ranged.is_empty() {
        Ok(None)
    } else {
        plan_calls(alloc, run, &origins)
    }
}

/// For a jump by a table whose index comes from a byte of RAM that a loop filled together with others, as the loop that clears variables
/// at the start: each round of that loop gets states of its own.
pub(crate) fn plan_filled(
    alloc: Global,
    run: &Run<'_>,
    spot: Spot,
    wanted: &RegisterSet,
) -> Result<Option<Plan>, AllocError> {
    if run.rules() == Rules::Simple {
        return Ok(None);
    }
    let origins = origins_of(alloc, run, spot, wanted)?;
    if !origins.is_by_table || origins.cells.is_empty() {
        return Ok(None);
    }
    let mut fillers = BTreeSet::new(alloc);
    for node in &run.nodes {
        if fills(run, node, &origins.cells) {
            fillers.insert(node.spot())?;
        }
    }
    plan_loops(alloc, run, &fillers)
}

/// The addresses that a node stores to, where a byte is among them and they are at most as many as are tracked one by one.
pub(crate) fn copied_at(run: &Run<'_>, node: &RunNode, byte: u16) -> Option<Span> {
    let op = op_at(run, node.spot())?;
    let is_store = match op {
        Op::LoadImmediate(Operand::AtHl, _) => true,
        _ => op.stored().is_some(),
    };
    let span = span_at(node, op.pointer()?);
    let more = span.last.saturating_sub(span.first);
    if is_store && span.first <= byte && byte <= span.last && 0 < more && more < FILLED {
        Some(span)
    } else {
        None
    }
}

/// The rounds of the innermost loop around a spot are told apart while they copy bytes that are kept: the same loop may copy much
/// else.
fn copy_apart(alloc: Global, run: &Run<'_>, spot: Spot) -> Result<Option<Plan>, AllocError> {
    let ways = Ways::of(alloc, run, spot.procedure)?;
    let loops = ways.loops(spot.point)?;
    let mut plan = Plan::new(alloc);
    if let Some(around) = loops.first() {
        for point in around.iter() {
            let place = TargetPlace {
                target: run.target(spot.procedure),
                point: *point,
            };
            if !run.configuration.copied.contains(&place) {
                plan.add(Edit::Copied(place))?;
            }
        }
    }
    Ok(unless_empty(run, plan))
}

/// For a byte of code in RAM of which nothing is known, since a loop copied it together with others: each round of that loop gets
/// states of its own, by the rules of version 3 at first only those that copy code.
pub(crate) fn plan_copied(
    alloc: Global,
    run: &Run<'_>,
    byte: u16,
) -> Result<Option<Plan>, AllocError> {
    let mut copies = BTreeSet::new(alloc);
    for node in &run.nodes {
        if copied_at(run, node, byte).is_some() {
            copies.insert(node.spot())?;
        }
    }
    if run.rules() == Rules::Extended {
        for spot in copies.iter() {
            if let Some(plan) = copy_apart(alloc, run, *spot)? {
                return Ok(Some(plan));
            }
        }
    }
    plan_loops(alloc, run, &copies)
}

/// The jump by HL that was gone by within a few steps before a node.
fn jump_before(run: &Run<'_>, number: usize) -> Option<usize> {
    let mut at = run.nodes.get(number)?.via?;
    for _ in 0..STEPS_BACK {
        let node = run.nodes.get(at)?;
        if matches!(op_at(run, node.spot()), Some(Op::JumpHl)) {
            return Some(at);
        }
        at = node.via?;
    }
    None
}

/// Whether a failure means that there is no code of the program's.
fn is_wild(cause: Cause) -> bool {
    matches!(
        cause,
        Cause::Area
            | Cause::Unreadable { .. }
            | Cause::UndefinedOpcode { .. }
            | Cause::Stop
            | Cause::Recursion { .. }
            | Cause::Stack(StackMisuse::SetAgain(_))
    )
}

/// What led into what is no code: a jump whose index comes from an array of which the bytes weren't told apart, so that it was taken
/// for any value. That jump as a failure, and what tells them apart.
pub fn array_behind(
    alloc: Global,
    run: &Run<'_>,
    failure: &Failure,
) -> Result<Option<(Failure, Plan)>, AllocError> {
    if run.rules() == Rules::Simple || !is_wild(failure.cause) {
        return Ok(None);
    }
    let Some(number) = jump_before(run, failure.node) else {
        return Ok(None);
    };
    let Some(node) = run.nodes.get(number) else {
        return Ok(None);
    };
    let registers = RegisterSet::of_pointer(Pointer::Hl);
    let origins = all_origins_of(alloc, run, node.spot(), &registers)?;
    if !origins.is_by_table {
        return Ok(None);
    }
    let jump = Failure {
        node: number,
        cause: Cause::JumpHl,
        registers,
    };
    match plan_loads(alloc, run, &origins)? {
        Some(plan) => Ok(Some((jump, plan))),
        None => Ok(None),
    }
}
