//! What to refine after a failure.

use crate::arrays::{plan_array, plan_copied, plan_filled};
use crate::cells::{key_all_cells, key_cells};
use crate::circles::plan_recursion;
use crate::inlining::{inline_plan, may_be_inlined};
use crate::kept::{part_exits, plan_kept, plan_stored, plan_written};
use crate::losses::{part_all, plan_banked, plan_shown};
use crate::returns::{plan_lost_return, pushed_before};
use crate::texts::plan_text;
use gb_dataflow::Rules;
use gb_dataflow::cause::{Cause, Failure, StackMisuse};
use gb_dataflow::compared::compare_before;
use gb_dataflow::gb_ops::op::Register;
use gb_dataflow::limits::{
    ALL_VALUES, CALL_KINDS, CALL_VALUES, CALLERS, DEAR_STEPS, FEW_VALUES, VISITS,
};
use gb_dataflow::loops::refine_loops;
use gb_dataflow::plan::{Edit, Plan, parted_by, unless_taken_back};
use gb_dataflow::popped::follow_taker;
use gb_dataflow::register_set::{REGISTERS, RegisterSet};
use gb_dataflow::slices::{
    SliceBy, SliceGoal, slice, slice_past_skip, slice_through_loop, slice_to_adder, slice_to_call,
    slice_to_start, slice_to_strides,
};
use gb_dataflow::sources::high_registers;
use gb_dataflow::spots::{is_known, place_of, value_of};
use gb_dataflow::types::{Run, RunNode, RunProcedure, Spot};
use gb_dataflow::ways::Ways;
use std::alloc::{AllocError, Global};
use std::collections::BTreeSet;

/// What is too wide, and where.
#[derive(Clone, Copy, PartialEq, Eq)]
pub(crate) struct FailurePoint {
    pub(crate) wanted: RegisterSet,
    /// The failure is JP HL's: then only values from a table may be told apart.
    pub(crate) is_jump: bool,
    /// The pointer is kept in RAM: then it is followed through no loop without an end, since it would walk through all memory.
    pub(crate) is_kept_in_ram: bool,
    /// The access has to be allowed at each address of the pointer: then it needn't be known, but bounded.
    pub(crate) is_bound_wanted: bool,
    /// The failure is JP HL's, and here: the array is sought from which its index comes, over calls too.
    pub(crate) is_array_sought: bool,
}

impl FailurePoint {
    /// Which values a slice tells apart there.
    fn slice_by(&self) -> SliceBy {
        if self.is_bound_wanted {
            SliceBy::Bounds
        } else {
            SliceBy::Any
        }
    }
}

/// All registers but A: what is usually passed to a procedure in pairs.
pub(crate) fn all_but_a() -> RegisterSet {
    RegisterSet::of(&[
        Register::B,
        Register::C,
        Register::D,
        Register::E,
        Register::H,
        Register::L,
    ])
}

/// All registers.
pub(crate) fn all_registers() -> RegisterSet {
    RegisterSet::of(&REGISTERS)
}

/// The calls of a procedure are told apart by registers, where that is new. Main and handlers have no calls.
pub(crate) fn part(
    alloc: Global,
    run: &Run<'_>,
    number: usize,
    registers: &RegisterSet,
) -> Result<Option<Plan>, AllocError> {
    let Some(procedure) = run.procedures.get(number) else {
        return Ok(None);
    };
    let target = run.target(number);
    let is_new = !registers.is_inside(&parted_by(&run.configuration, target));
    if number == 0 || procedure.key.is_handler || !is_new {
        return Ok(None);
    }
    let plan = Plan::of(alloc, Edit::Part(target, *registers))?;
    Ok(unless_taken_back(run, plan))
}

/// Whether each call of a procedure knows a register, and the calls have a few values in it.
pub(crate) fn is_known_by_calls(
    alloc: Global,
    run: &Run<'_>,
    procedure: &RunProcedure,
    register: Register,
) -> Result<bool, AllocError> {
    let mut values = BTreeSet::new(alloc);
    for site in procedure.sites.iter() {
        let Some(node) = run.nodes.get(*site) else {
            return Ok(false);
        };
        if !is_known(node, register) {
            return Ok(false);
        }
        values.insert(value_of(node, register).lo)?;
    }
    Ok(values.len() <= CALL_VALUES)
}

/// The registers that a procedure's first node doesn't know.
fn unknown_at_entry(run: &Run<'_>, procedure: &RunProcedure) -> RegisterSet {
    let mut unknown = RegisterSet::empty();
    let Some(entry) = procedure.entry else {
        return unknown;
    };
    if let Some(node) = run.nodes.get(entry) {
        for register in REGISTERS {
            if register != Register::A && !is_known(node, register) {
                unknown.insert(register);
            }
        }
    }
    unknown
}

/// The registers that aren't known where a procedure begins, though each call knows them.
fn joined_by_calls(alloc: Global, run: &Run<'_>, number: usize) -> Result<RegisterSet, AllocError> {
    let mut joined = RegisterSet::empty();
    let Some(procedure) = run.procedures.get(number) else {
        return Ok(joined);
    };
    let unknown = unknown_at_entry(run, procedure);
    for register in REGISTERS {
        if unknown.contains(register) && is_known_by_calls(alloc, run, procedure, register)? {
            joined.insert(register);
        }
    }
    Ok(joined)
}

/// Those of the wanted registers that aren't known where a procedure begins, or all of them where these are told apart already.
fn wide_at_entry(run: &Run<'_>, number: usize, wanted: &RegisterSet) -> RegisterSet {
    let Some(procedure) = run.procedures.get(number) else {
        return RegisterSet::empty();
    };
    let unknown = unknown_at_entry(run, procedure);
    let mut wide = RegisterSet::empty();
    for register in REGISTERS {
        if unknown.contains(register) && wanted.contains(register) {
            wide.insert(register);
        }
    }
    if wide.is_inside(&parted_by(&run.configuration, run.target(number))) {
        unknown
    } else {
        wide
    }
}

/// How many different calls of a procedure there are, by what they know of registers.
fn kinds_of_calls(alloc: Global, run: &Run<'_>, number: usize) -> Result<usize, AllocError> {
    let mut kinds: BTreeSet<[u16; 6]> = BTreeSet::new(alloc);
    let Some(procedure) = run.procedures.get(number) else {
        return Ok(0);
    };
    for site in procedure.sites.iter() {
        if let Some(node) = run.nodes.get(*site) {
            let registers = node.state.core().registers;
            kinds.insert([
                known_or(registers.b.lo, registers.b.hi),
                known_or(registers.c.lo, registers.c.hi),
                known_or(registers.d.lo, registers.d.hi),
                known_or(registers.e.lo, registers.e.hi),
                known_or(registers.h.lo, registers.h.hi),
                known_or(registers.l.lo, registers.l.hi),
            ])?;
        }
    }
    Ok(kinds.len())
}

/// A value that is known, or a number that is no value.
fn known_or(lo: u8, hi: u8) -> u16 {
    if lo == hi { u16::from(lo) } else { 0x100 }
}

/// All of a procedure is paged, or keyed where it is paged already, or where another round would take long.
fn refine_all(alloc: Global, run: &Run<'_>, number: usize) -> Result<Option<Plan>, AllocError> {
    let mut all = BTreeSet::new(alloc);
    let is_dear = run.steps >= DEAR_STEPS;
    let mut is_paged = true;
    let mut is_keyed = true;
    for node in &run.nodes {
        if node.key.procedure == number {
            let place = place_of(run, node.spot());
            let has_key = run.configuration.keyed.contains(&place);
            is_keyed = is_keyed && has_key;
            is_paged = is_paged && (has_key || run.configuration.paged.contains(&place));
            all.insert(node.key.point())?;
        }
    }
    if is_keyed {
        return Ok(None);
    }
    let target = run.target(number);
    let plan = if is_paged || is_dear {
        let ways = Ways::of(alloc, run, number)?;
        Plan::key_all(alloc, run, &ways, number, &all)?
    } else {
        Plan::page_all(alloc, target, &all)?
    };
    Ok(unless_taken_back(run, plan))
}

/// A slice back from a spot, if there are registers to follow.
fn slice_to(
    alloc: Global,
    run: &Run<'_>,
    ways: &Ways,
    spot: Spot,
    trouble: &FailurePoint,
    (most, by): (u32, SliceBy),
) -> Result<Option<Plan>, AllocError> {
    if trouble.wanted.is_empty() {
        return Ok(None);
    }
    let sought = SliceGoal {
        wanted: trouble.wanted,
        most,
        by,
    };
    slice(alloc, run, ways, spot, &sought)
}

/// A slice to a pointer's page alone: its low byte may be any. One that is kept in RAM would go on from page to page.
fn slice_to_page(
    alloc: Global,
    run: &Run<'_>,
    ways: &Ways,
    spot: Spot,
    trouble: &FailurePoint,
) -> Result<Option<Plan>, AllocError> {
    if trouble.is_kept_in_ram {
        return Ok(None);
    }
    let page = FailurePoint {
        wanted: high_registers(&trouble.wanted),
        ..*trouble
    };
    slice_to(alloc, run, ways, spot, &page, (FEW_VALUES, page.slice_by()))
}

/// What is tried nearest to a spot, in this order.
#[derive(Clone, Copy)]
enum Near {
    /// What a known number is compared with before is told apart by how that ends.
    Compared,
    /// The procedure is parted by what its calls know.
    Calls,
    /// The array in RAM from which a jump's index is loaded.
    Array,
    /// The loop that copied a text to RAM.
    Text,
    /// A slice through a loop that loses what is known.
    Through,
    /// A slice past a branch that skips a few instructions.
    Skip,
    /// A loop that goes through an array by a pointer, up to the array's end.
    Strides,
    /// A slice with few values.
    Slice,
    /// The loop that filled the byte of RAM from which a jump's index comes.
    Filled,
    /// What a jump comes from.
    Jump,
    /// Loops that have an end in their procedure.
    Loops,
    /// A slice before the loop around the spot.
    Start,
    /// Loops without one.
    Endless,
    /// A slice to a pointer's page.
    Page,
    /// A slice with up to 256 values.
    WideSlice,
    /// What is called before, or where ways meet.
    Call,
}

const NEAR: [Near; 16] = [
    Near::Compared,
    Near::Calls,
    Near::Array,
    Near::Text,
    Near::Through,
    Near::Skip,
    Near::Strides,
    Near::Slice,
    Near::Filled,
    Near::Jump,
    Near::Loops,
    Near::Start,
    Near::Endless,
    Near::Page,
    Near::WideSlice,
    Near::Call,
];

/// One trial near a spot.
fn try_near(
    alloc: Global,
    run: &Run<'_>,
    ways: &Ways,
    spot: Spot,
    trouble: &FailurePoint,
    near: Near,
) -> Result<Option<Plan>, AllocError> {
    let by = if trouble.is_jump {
        SliceBy::Table
    } else {
        trouble.slice_by()
    };
    match near {
        Near::Compared => compare_before(alloc, run, ways, spot),
        Near::Calls => {
            let joined = joined_by_calls(alloc, run, spot.procedure)?;
            part(alloc, run, spot.procedure, &joined)
        }
        Near::Slice => slice_to(alloc, run, ways, spot, trouble, (FEW_VALUES, by)),
        Near::Jump if trouble.is_jump => plan_jump(alloc, run, ways, spot, trouble),
        Near::Loops => refine_loops(alloc, run, ways, spot, false),
        Near::Endless => refine_loops(alloc, run, ways, spot, !trouble.is_kept_in_ram),
        Near::Array if trouble.is_array_sought => plan_array(alloc, run, spot, &trouble.wanted),
        Near::Filled if trouble.is_array_sought => plan_filled(alloc, run, spot, &trouble.wanted),
        Near::Jump | Near::Array | Near::Filled => Ok(None),
        Near::Text
        | Near::Through
        | Near::Skip
        | Near::Strides
        | Near::Start
        | Near::Call
        | Near::Page
        | Near::WideSlice
            if trouble.is_jump => Ok(None),
        Near::Text => plan_text(alloc, run, ways, spot),
        Near::Strides => slice_to_strides(alloc, run, ways, spot, &trouble.wanted),
        Near::Through => slice_through_loop(alloc, run, ways, spot, &trouble.wanted),
        Near::Skip if trouble.is_bound_wanted => {
            slice_past_skip(alloc, run, ways, spot, &trouble.wanted)
        }
        Near::Start if !trouble.is_kept_in_ram => {
            slice_to_start(alloc, run, ways, spot, &trouble.wanted)
        }
        Near::Skip | Near::Start => Ok(None),
        Near::Call => {
            let sought = SliceGoal {
                wanted: trouble.wanted,
                most: FEW_VALUES,
                by,
            };
            slice_to_call(alloc, run, ways, spot, &sought)
        }
        Near::Page => slice_to_page(alloc, run, ways, spot, trouble),
        Near::WideSlice => slice_to(alloc, run, ways, spot, trouble, (ALL_VALUES, by)),
    }
}

/// What is nearest to a spot: its calls, slices, what a jump comes from, its loops, what is called before.
pub(crate) fn plan_near(
    alloc: Global,
    run: &Run<'_>,
    spot: Spot,
    trouble: &FailurePoint,
) -> Result<Option<Plan>, AllocError> {
    let ways = Ways::of(alloc, run, spot.procedure)?;
    for near in NEAR {
        if let Some(plan) = try_near(alloc, run, &ways, spot, trouble, near)? {
            return Ok(Some(plan));
        }
    }
    Ok(None)
}

/// A jump that no table tells: the cells that its target comes from, or else an index that is added to an address.
fn plan_jump(
    alloc: Global,
    run: &Run<'_>,
    ways: &Ways,
    spot: Spot,
    trouble: &FailurePoint,
) -> Result<Option<Plan>, AllocError> {
    match key_cells(alloc, run, spot, &trouble.wanted)? {
        Some(plan) => Ok(Some(plan)),
        None => slice_to(
            alloc,
            run,
            ways,
            spot,
            trouble,
            (FEW_VALUES, SliceBy::Index),
        ),
    }
}

/// In a run with facts: a register that these bound is taken value by value from where it is loaded. Elsewhere its byte may be any.
fn plan_bounded(
    alloc: Global,
    run: &Run<'_>,
    spot: Spot,
    trouble: &FailurePoint,
) -> Result<Option<Plan>, AllocError> {
    if !run.has_facts() {
        return Ok(None);
    }
    let ways = Ways::of(alloc, run, spot.procedure)?;
    if let Some(plan) = compare_before(alloc, run, &ways, spot)? {
        return Ok(Some(plan));
    }
    let by = if trouble.is_jump {
        SliceBy::Table
    } else {
        trouble.slice_by()
    };
    slice_to(alloc, run, &ways, spot, trouble, (FEW_VALUES, by))
}

/// What there is to refine in the procedure of a spot.
fn plan_in(
    alloc: Global,
    run: &Run<'_>,
    spot: Spot,
    trouble: &FailurePoint,
) -> Result<Option<Plan>, AllocError> {
    if let Some(plan) = plan_near(alloc, run, spot, trouble)? {
        return Ok(Some(plan));
    }
    let wide = wide_at_entry(run, spot.procedure, &trouble.wanted);
    let parted = part(alloc, run, spot.procedure, &wide)?;
    let kinds = kinds_of_calls(alloc, run, spot.procedure)?;
    if parted.is_some() && kinds > 1 && kinds <= CALL_KINDS {
        return Ok(parted);
    }
    if trouble.is_kept_in_ram {
        return Ok(parted);
    }
    match refine_all(alloc, run, spot.procedure)? {
        Some(plan) => Ok(Some(plan)),
        None => Ok(parted),
    }
}

/// The calls of a procedure that isn't a handler.
pub(crate) fn callers_of(
    alloc: Global,
    run: &Run<'_>,
    number: usize,
) -> Result<Vec<Spot>, AllocError> {
    let mut callers = Vec::new(alloc);
    let Some(procedure) = run.procedures.get(number) else {
        return Ok(callers);
    };
    if !procedure.key.is_handler {
        for site in procedure.sites.iter() {
            if let Some(node) = run.nodes.get(*site) {
                callers.push(node.spot())?;
            }
        }
    }
    Ok(callers)
}

/// A routine that adds to the address of a jump's table: before the jump, or before the calls of a routine that is nothing but the
/// jump. Joined, the tables of several calls would look like one, and their indices like an array's.
fn plan_adder(
    alloc: Global,
    run: &Run<'_>,
    spot: Spot,
    wanted: &RegisterSet,
) -> Result<Option<Plan>, AllocError> {
    let mut spots = Vec::new(alloc);
    spots.push(spot)?;
    if run.target(spot.procedure) == spot.point {
        for caller in &callers_of(alloc, run, spot.procedure)? {
            spots.push(*caller)?;
        }
    }
    for spot in &spots {
        let ways = Ways::of(alloc, run, spot.procedure)?;
        if let Some(plan) = slice_to_adder(alloc, run, &ways, *spot, wanted)? {
            return Ok(Some(plan));
        }
    }
    Ok(None)
}

/// What there is to refine at a spot, or at the calls that lead to it.
fn plan_at(
    alloc: Global,
    run: &Run<'_>,
    spot: Spot,
    trouble: &FailurePoint,
) -> Result<Option<Plan>, AllocError> {
    let mut seen = BTreeSet::new(alloc);
    let mut left = Vec::new(alloc);
    left.push((spot, 0u32))?;
    for _ in 0..VISITS {
        let Some((spot, depth)) = left.pop() else {
            break
        };
        if !seen.insert(spot.procedure)? {
            continue;
        }
        // What a caller has may still be compared where it is called.
        let here = FailurePoint {
            is_bound_wanted: trouble.is_bound_wanted && depth == 0,
            is_array_sought: trouble.is_array_sought && depth == 0,
            ..*trouble
        };
        if let Some(plan) = plan_in(alloc, run, spot, &here)? {
            return Ok(Some(plan));
        }
        if depth < CALLERS {
            let mut callers = callers_of(alloc, run, spot.procedure)?;
            callers.reverse();
            for caller in &callers {
                left.push((*caller, depth.saturating_add(1)))?;
            }
        }
    }
    Ok(None)
}

/// Loops around the first of some spots that can be refined.
pub(crate) fn plan_loops(
    alloc: Global,
    run: &Run<'_>,
    spots: &BTreeSet<Spot>,
) -> Result<Option<Plan>, AllocError> {
    for spot in spots.iter() {
        let ways = Ways::of(alloc, run, spot.procedure)?;
        if let Some(plan) = refine_loops(alloc, run, &ways, *spot, true)? {
            return Ok(Some(plan));
        }
    }
    Ok(None)
}

/// Code in RAM isn't known: loops that drop its cells, one copy for each value that is patched in, or the loops that copied it.
fn plan_code(alloc: Global, run: &Run<'_>, byte: u16) -> Result<Option<Plan>, AllocError> {
    if let Some(plan) = plan_loops(alloc, run, &run.killers)? {
        return Ok(Some(plan));
    }
    let sought = SliceGoal {
        wanted: RegisterSet::of(&[Register::A]),
        most: ALL_VALUES,
        by: SliceBy::Any,
    };
    let mut is_stored = false;
    for store in run.stores.iter() {
        if store.cell != byte {
            continue;
        }
        is_stored = true;
        let ways = Ways::of(alloc, run, store.spot.procedure)?;
        if let Some(mut plan) = slice(alloc, run, &ways, store.spot, &sought)? {
            plan.add(Edit::Cell(byte))?;
            return Ok(unless_taken_back(run, plan));
        }
    }
    if is_stored && !run.configuration.key_cells.contains(&byte) {
        let plan = Plan::of(alloc, Edit::Cell(byte))?;
        return Ok(unless_taken_back(run, plan));
    }
    plan_copied(alloc, run, byte)
}

/// The bank isn't known at a node: joins of calls that know it, the cells that it was switched by, the calls of what switches
/// it, or its value there.
fn plan_bank(alloc: Global, run: &Run<'_>, node: usize) -> Result<Option<Plan>, AllocError> {
    if let Some(plan) = plan_loops(alloc, run, &run.killers)? {
        return Ok(Some(plan));
    }
    if let Some(plan) = plan_shown(alloc, run, node)? {
        return Ok(Some(plan));
    }
    let a = RegisterSet::of(&[Register::A]);
    for spot in run.switches.iter() {
        if let Some(plan) = key_cells(alloc, run, *spot, &a)? {
            return Ok(Some(plan));
        }
    }
    for registers in [a, all_registers()] {
        for spot in run.switches.iter() {
            if let Some(plan) = part(alloc, run, spot.procedure, &registers)? {
                return Ok(Some(plan));
            }
        }
    }
    let trouble = FailurePoint {
        wanted: a,
        is_jump: false,
        is_kept_in_ram: false,
        is_bound_wanted: false,
        is_array_sought: false,
    };
    for spot in run.switches.iter() {
        if let Some(plan) = plan_at(alloc, run, *spot, &trouble)? {
            return Ok(Some(plan));
        }
    }
    Ok(None)
}

/// A jump to a return word that a routine has popped itself: what took that word over before is followed.
fn plan_return_word(
    alloc: Global,
    run: &Run<'_>,
    spot: Spot,
    wanted: &RegisterSet,
) -> Result<Option<Plan>, AllocError> {
    let ways = Ways::of(alloc, run, spot.procedure)?;
    follow_taker(alloc, run, &ways, spot, wanted)
}

/// A return whose word isn't known: what took it over before is followed; or where it was pushed right before, as a jump, what its
/// pair comes from is told apart as before JP HL, and so is the return.
fn plan_return(alloc: Global, run: &Run<'_>, node: &RunNode) -> Result<Option<Plan>, AllocError> {
    if let Some(plan) = plan_lost_return(alloc, run, node)? {
        return Ok(Some(plan));
    }
    let spot = node.spot();
    let ways = Ways::of(alloc, run, spot.procedure)?;
    let Some((push, wanted)) = pushed_before(run, &ways, spot) else {
        return Ok(None);
    };
    let trouble = FailurePoint {
        wanted,
        is_jump: true,
        is_kept_in_ram: false,
        is_bound_wanted: false,
        is_array_sought: true,
    };
    let plan = match plan_bounded(alloc, run, push, &trouble)? {
        Some(plan) => Some(plan),
        None => plan_at(alloc, run, push, &trouble)?,
    };
    let Some(mut plan) = plan else {
        return Ok(None);
    };
    plan.key(run, &ways, spot)?;
    Ok(unless_taken_back(run, plan))
}

/// A pointer is too wide, or one that is known ran too far.
fn plan_pointer(
    alloc: Global,
    run: &Run<'_>,
    spot: Spot,
    failure: &Failure,
    is_kept_in_ram: bool,
) -> Result<Option<Plan>, AllocError> {
    let wanted = failure.registers;
    let Some(node) = run.nodes.get(failure.node) else {
        return Ok(None);
    };
    let is_exact = REGISTERS.iter().all(|register| !wanted.contains(*register)
        || is_known(node, *register));
    if is_exact && !wanted.is_empty() {
        return plan_exact(alloc, run, spot, failure, is_kept_in_ram);
    }
    if wanted.is_empty() {
        // The instruction names its address, so it is the gate that isn't known.
        return match failure.cause {
            Cause::CartridgeRam { .. } => plan_bank(alloc, run, failure.node),
            _ => Ok(None),
        };
    }
    if let Some(plan) = plan_banked(alloc, run, spot, &wanted)? {
        return Ok(Some(plan));
    }
    let trouble = FailurePoint {
        wanted,
        is_jump: failure.cause == Cause::JumpHl,
        is_kept_in_ram,
        is_bound_wanted: matches!(
            failure.cause,
            Cause::Store { .. } | Cause::CartridgeRam { .. }
        ),
        is_array_sought: failure.cause == Cause::JumpHl,
    };
    if let Some(plan) = plan_bounded(alloc, run, spot, &trouble)? {
        return Ok(Some(plan));
    }
    if trouble.is_jump
        && let Some(plan) = plan_adder(alloc, run, spot, &wanted)?
    {
        return Ok(Some(plan));
    }
    if trouble.is_jump
        && let Some(plan) = plan_return_word(alloc, run, spot, &wanted)?
    {
        return Ok(Some(plan));
    }
    if let Some(plan) = plan_kept(alloc, run, spot, &wanted, is_kept_in_ram)? {
        return Ok(Some(plan));
    }
    if let Some(plan) = plan_at(alloc, run, spot, &trouble)? {
        return Ok(Some(plan));
    }
    if let Some(plan) = key_cells(alloc, run, spot, &wanted)? {
        return Ok(Some(plan));
    }
    if let Some(plan) = plan_written(alloc, run, spot, &wanted)? {
        return Ok(Some(plan));
    }
    if let Some(plan) = part_exits(alloc, run)? {
        return Ok(Some(plan));
    }
    if is_kept_in_ram {
        plan_stored(alloc, run, spot, &wanted)
    } else {
        Ok(None)
    }
}

/// A pointer that is known ran too far: a loop that isn't exact itself has brought it here, or, where its procedure can't be
/// followed in its callers any more, it was told apart too late, behind a comparison or a table that bounds it; else what it comes
/// from in RAM is told apart.
fn plan_exact(
    alloc: Global,
    run: &Run<'_>,
    spot: Spot,
    failure: &Failure,
    is_kept_in_ram: bool,
) -> Result<Option<Plan>, AllocError> {
    let ways = Ways::of(alloc, run, spot.procedure)?;
    if let Some(plan) = refine_loops(alloc, run, &ways, spot, !is_kept_in_ram)? {
        return Ok(Some(plan));
    }
    let is_tried = run.rules() == Rules::Extended && failure.cause != Cause::JumpHl;
    if !is_tried || inline_plan(alloc, run, failure)?.is_some() {
        return Ok(None);
    }
    let few = SliceGoal {
        wanted: failure.registers,
        most: FEW_VALUES,
        by: SliceBy::First,
    };
    if let Some(plan) = slice(alloc, run, &ways, spot, &few)? {
        return Ok(Some(plan));
    }
    if let Some(plan) = key_all_cells(alloc, run, spot, &failure.registers)? {
        return Ok(Some(plan));
    }
    if let Some(plan) = part_exits(alloc, run)? {
        return Ok(Some(plan));
    }
    let all = SliceGoal {
        most: ALL_VALUES,
        ..few
    };
    slice(alloc, run, &ways, spot, &all)
}

/// What is tried alone where nothing else would help, since a pointer's byte comes from many: the comparisons on the way to its load
/// whose sides aren't told apart yet.
pub fn plan_compared(alloc: Global, run: &Run<'_>, load: u16) -> Result<Option<Plan>, AllocError> {
    let mut spots = BTreeSet::new(alloc);
    for node in &run.nodes {
        if node.key.address == load {
            spots.insert(node.spot())?;
        }
    }
    for spot in &spots {
        let ways = Ways::of(alloc, run, spot.procedure)?;
        if let Some(plan) = compare_before(alloc, run, &ways, *spot)? {
            return Ok(Some(plan));
        }
    }
    Ok(None)
}

/// What is tried where nothing else helps against a failure: all routines are analysed once for each bank that their calls know.
pub fn last_plan(
    alloc: Global,
    run: &Run<'_>,
    failure: &Failure,
) -> Result<Option<Plan>, AllocError> {
    if may_be_inlined(failure.cause) {
        part_all(alloc, run)
    } else {
        Ok(None)
    }
}

/// What to refine after a failure, if anything may help; whether its pointer is kept in RAM is given.
pub fn plan_for(
    alloc: Global,
    run: &Run<'_>,
    failure: &Failure,
    is_kept_in_ram: bool,
) -> Result<Option<Plan>, AllocError> {
    let Some(node) = run.nodes.get(failure.node) else {
        return Ok(None);
    };
    let spot = node.spot();
    match failure.cause {
        Cause::Recursion { .. } => plan_recursion(alloc, run, spot.procedure),
        Cause::Bank => plan_bank(alloc, run, failure.node),
        Cause::Unreadable { byte } => match plan_code(alloc, run, byte)? {
            Some(plan) => Ok(Some(plan)),
            None => {
                let trouble = FailurePoint {
                    wanted: RegisterSet::empty(),
                    is_jump: false,
                    is_kept_in_ram: false,
                    is_bound_wanted: false,
                    is_array_sought: false,
                };
                plan_at(alloc, run, spot, &trouble)
            }
        },
        Cause::Store { .. }
        | Cause::CartridgeRam { .. }
        | Cause::CopiesCartridgeRam { .. }
        | Cause::OamTransfer(_)
        | Cause::Stack(StackMisuse::SetByHl)
        | Cause::JumpHl => plan_pointer(alloc, run, spot, failure, is_kept_in_ram),
        Cause::ReturnToUnknown => plan_return(alloc, run, node),
        Cause::Area
        | Cause::UndefinedOpcode { .. }
        | Cause::Stop
        | Cause::Halt
        | Cause::Stack(_)
        | Cause::PushesTooMany
        | Cause::ReturnWithOthers
        | Cause::ReturnInMain
        | Cause::ReturnWithBytes { .. }
        | Cause::InterruptWithoutStack { .. } => Ok(None),
    }
}
