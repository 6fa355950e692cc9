//! Where what calls know is lost: a procedure that several calls enter joins what each of them knows. At first procedures aren't
//! parted by what the controller shows, nor by cells; where a failure comes from such a join, the procedures there are parted.

use crate::cells::{CellLoad, Entering, origins_of};
use gb_dataflow::gb_ops::op::Register;
use gb_dataflow::limits::VISITS;
use gb_dataflow::plan::{Edit, Plan, parted_by, unless_empty};
use gb_dataflow::register_set::{REGISTERS, RegisterSet};
use gb_dataflow::spots::{SWITCHED, is_known, value_of};
use gb_dataflow::types::{Run, RunNode, RunProcedure, Spot};
use gb_dataflow::{Abs, Rules, cell_at, known_bank};
use std::alloc::{AllocError, Global};
use std::collections::BTreeSet;

/// What a call may know, and the procedure that it enters may not.
#[derive(Clone, Copy, PartialEq, Eq)]
enum LostPart {
    /// The bank that is shown, and whether cartridge RAM is enabled.
    Shown,
    Cell(u16),
    Register(Register),
}

/// Whether a state knows which bank is shown, and whether cartridge RAM is enabled.
fn is_shown_known(run: &Run<'_>, state: &Abs) -> bool {
    let ctl = &state.core().ctl;
    ctl.gate.clear != ctl.gate.set && known_bank(run.rom, ctl, SWITCHED).is_some()
}

/// Whether a node knows a part.
fn knows(run: &Run<'_>, node: &RunNode, part: LostPart) -> bool {
    match part {
        LostPart::Shown => is_shown_known(run, &node.state),
        LostPart::Cell(cell) => {
            let val = cell_at(cell, node.state.cells());
            val.lo == val.hi
        }
        LostPart::Register(register) => is_known(node, register),
    }
}

/// Whether a node knows a part, as another one does that knows it.
fn knows_the_same(run: &Run<'_>, node: &RunNode, other: &RunNode, part: LostPart) -> bool {
    if !knows(run, node, part) || !knows(run, other, part) {
        return false;
    }
    match part {
        LostPart::Shown => {
            let (left, right) = (&node.state.core().ctl, &other.state.core().ctl);
            let is_same_bank = known_bank(run.rom, left, SWITCHED)
                == known_bank(run.rom, right, SWITCHED);
            is_same_bank && left.gate == right.gate
        }
        LostPart::Cell(cell) => {
            cell_at(cell, node.state.cells()).lo == cell_at(cell, other.state.cells()).lo
        }
        LostPart::Register(register) => {
            value_of(node, register).lo == value_of(other, register).lo
        }
    }
}

/// The first node of a procedure.
fn entry_of<'a>(run: &'a Run<'_>, procedure: &RunProcedure) -> Option<&'a RunNode> {
    run.nodes.get(procedure.entry?)
}

/// Whether a procedure's first node doesn't know a part.
fn is_open_at_entry(run: &Run<'_>, procedure: &RunProcedure, part: LostPart) -> bool {
    match entry_of(run, procedure) {
        Some(node) => !knows(run, node, part),
        None => false,
    }
}

/// Whether a call of a procedure knows a part, and the procedure's first node doesn't. A call that closes a circle isn't joined
/// there, so that the first node may also know another value.
fn is_lost_by_calls(run: &Run<'_>, number: usize, part: LostPart) -> bool {
    let Some(procedure) = run.procedures.get(number) else {
        return false;
    };
    let Some(entry) = entry_of(run, procedure) else {
        return false;
    };
    procedure.sites.iter().any(|site| match run.nodes.get(*site) {
        Some(node) => knows(run, node, part) && !knows_the_same(run, node, entry, part),
        None => false,
    })
}

/// The change by which a procedure's calls are kept apart by a part, where that is new.
fn parting(run: &Run<'_>, number: usize, part: LostPart) -> Option<Edit> {
    let target = run.target(number);
    match part {
        LostPart::Shown if !run.configuration.is_by_controller(target) => Some(Edit::PartBank(
            target,
        )),
        LostPart::Cell(cell) => {
            let cells = run.configuration.entry_cells(target);
            let is_new = !cells.contains(cell) && cells.has_room();
            if is_new {
                Some(Edit::PartCell(target, cell))
            } else {
                None
            }
        }
        LostPart::Register(register) => {
            let registers = RegisterSet::of(&[register]);
            let is_new = !registers.is_inside(&parted_by(&run.configuration, target));
            if is_new {
                Some(Edit::Part(target, registers))
            } else {
                None
            }
        }
        LostPart::Shown => None,
    }
}

/// The procedures that lead to a procedure and don't know a part where they begin, with it.
fn leading_to(
    alloc: Global,
    run: &Run<'_>,
    number: usize,
    part: LostPart,
) -> Result<BTreeSet<usize>, AllocError> {
    let mut seen = BTreeSet::new(alloc);
    let mut left = Vec::new(alloc);
    left.push(number)?;
    for _ in 0..VISITS {
        let Some(at) = left.pop() else { break };
        let Some(procedure) = run.procedures.get(at) else {
            continue;
        };
        if !is_open_at_entry(run, procedure, part) || !seen.insert(at)? {
            continue;
        }
        for site in &procedure.sites {
            if let Some(node) = run.nodes.get(*site)
                && !knows(run, node, part)
            {
                left.push(node.key.procedure)?;
            }
        }
    }
    Ok(seen)
}

/// The changes by which a part is known in a procedure that isn't where it begins.
fn add_partings(
    alloc: Global,
    run: &Run<'_>,
    number: usize,
    part: LostPart,
    within: Option<&BTreeSet<usize>>,
    plan: &mut Plan,
) -> Result<(), AllocError> {
    for member in &leading_to(alloc, run, number, part)? {
        let is_within = match within {
            Some(within) => within.contains(member),
            None => true,
        };
        if is_within
            && is_lost_by_calls(run, *member, part)
            && let Some(edit) = parting(run, *member, part)
        {
            plan.add_new(edit)?;
        }
    }
    Ok(())
}

/// Whether a procedure leaves with a bank that its callers don't know.
fn loses_bank(run: &Run<'_>, number: usize) -> bool {
    match run.procedures.get(number) {
        Some(procedure) => match &procedure.exit {
            Some(exit) => !exit.core().ctl.kept.are_all() && !is_shown_known(run, exit),
            None => false,
        },
        None => false,
    }
}

/// The procedures that a procedure calls, or that may interrupt it, and that lose the bank, and those that they call: but where
/// a procedure stores an unknown bank itself, none that it calls.
fn losers(alloc: Global, run: &Run<'_>, number: usize) -> Result<BTreeSet<usize>, AllocError> {
    let mut seen = BTreeSet::new(alloc);
    let mut left = Vec::new(alloc);
    left.push(number)?;
    for _ in 0..VISITS {
        let Some(at) = left.pop() else { break };
        if !seen.insert(at)? || run.switches.iter().any(|spot| spot.procedure == at) {
            continue;
        }
        let Some(procedure) = run.procedures.get(at) else {
            continue;
        };
        for callee in &procedure.callees {
            if loses_bank(run, *callee) {
                left.push(*callee)?;
            }
        }
    }
    Ok(seen)
}

/// The changes by which the bank is known that is stored at a spot.
fn add_stored(
    alloc: Global,
    run: &Run<'_>,
    spot: Spot,
    within: &BTreeSet<usize>,
    plan: &mut Plan,
) -> Result<(), AllocError> {
    let origins = origins_of(alloc, run, spot, &RegisterSet::of(&[Register::A]))?;
    for entering in &origins.entries {
        let Entering {
            procedure,
            register,
        } = *entering;
        if let Some(register) = REGISTERS.get(register)
            && is_lost_by_calls(run, procedure, LostPart::Register(*register))
            && let Some(edit) = parting(run, procedure, LostPart::Register(*register))
        {
            plan.add_new(edit)?;
        }
    }
    if !plan.is_empty() {
        return Ok(());
    }
    for load in &origins.loads {
        let CellLoad { procedure, cell } = *load;
        add_partings(
            alloc,
            run,
            procedure,
            LostPart::Cell(cell),
            Some(within),
            plan,
        )?;
    }
    Ok(())
}

/// The bank, or whether cartridge RAM is enabled, isn't known at a node: what its procedure joins where it begins, or what
/// procedures join that it calls and that leave with an unknown bank.
pub(crate) fn plan_shown(
    alloc: Global,
    run: &Run<'_>,
    number: usize,
) -> Result<Option<Plan>, AllocError> {
    let Some(node) = run.nodes.get(number) else {
        return Ok(None);
    };
    if run.rules() == Rules::Simple || is_shown_known(run, &node.state) {
        return Ok(None);
    }
    let mut plan = Plan::new(alloc);
    let procedure = node.key.procedure;
    add_switched(alloc, run, node, &mut plan)?;
    if plan.is_empty() {
        add_partings(alloc, run, procedure, LostPart::Shown, None, &mut plan)?;
    }
    if plan.is_empty() {
        add_switched_before(alloc, run, procedure, &mut plan)?;
    }
    Ok(unless_empty(run, plan))
}

/// The changes by which the bank is known at a node that its procedure, or what that calls, has switched.
fn add_switched(
    alloc: Global,
    run: &Run<'_>,
    node: &RunNode,
    plan: &mut Plan,
) -> Result<(), AllocError> {
    if node.state.core().ctl.kept.are_all() {
        return Ok(());
    }
    let members = losers(alloc, run, node.key.procedure)?;
    for spot in &run.switches {
        if members.contains(&spot.procedure) {
            add_stored(alloc, run, *spot, &members, plan)?;
        }
    }
    Ok(())
}

/// The same at the calls that lead to a procedure and don't know the bank: it was switched before them.
fn add_switched_before(
    alloc: Global,
    run: &Run<'_>,
    number: usize,
    plan: &mut Plan,
) -> Result<(), AllocError> {
    for member in &leading_to(alloc, run, number, LostPart::Shown)? {
        let Some(procedure) = run.procedures.get(*member) else {
            continue;
        };
        for site in &procedure.sites {
            if let Some(node) = run.nodes.get(*site)
                && !is_shown_known(run, &node.state)
            {
                add_switched(alloc, run, node, plan)?;
            }
        }
    }
    Ok(())
}

/// Registers come from a table in a bank that isn't known where it is read.
pub(crate) fn plan_banked(
    alloc: Global,
    run: &Run<'_>,
    spot: Spot,
    wanted: &RegisterSet,
) -> Result<Option<Plan>, AllocError> {
    if run.rules() == Rules::Simple {
        return Ok(None);
    }
    let origins = origins_of(alloc, run, spot, wanted)?;
    for spot in &origins.banked {
        for number in run.nodes_at(*spot) {
            if let Some(plan) = plan_shown(alloc, run, *number)? {
                return Ok(Some(plan));
            }
        }
    }
    Ok(None)
}

/// All procedures that join what their calls know of what is shown are parted by it: that is tried last.
pub(crate) fn part_all(alloc: Global, run: &Run<'_>) -> Result<Option<Plan>, AllocError> {
    let mut plan = Plan::new(alloc);
    if run.rules() == Rules::Simple {
        return Ok(None);
    }
    for number in 1..run.procedures.len() {
        if is_lost_by_calls(run, number, LostPart::Shown)
            && let Some(edit) = parting(run, number, LostPart::Shown)
        {
            plan.add_new(edit)?;
        }
    }
    Ok(unless_empty(run, plan))
}

/// Procedures that call and are called in a circle are parted by what the controller shows, where calls of them know it.
pub(crate) fn part_circle(
    alloc: Global,
    run: &Run<'_>,
    callers: &BTreeSet<usize>,
    callees: &BTreeSet<usize>,
) -> Result<Option<Plan>, AllocError> {
    let mut plan = Plan::new(alloc);
    if run.rules() == Rules::Simple {
        return Ok(None);
    }
    for member in callers {
        if callees.contains(member)
            && is_lost_by_calls(run, *member, LostPart::Shown)
            && let Some(edit) = parting(run, *member, LostPart::Shown)
        {
            plan.add_new(edit)?;
        }
    }
    Ok(unless_empty(run, plan))
}
