//! Procedures that may be running when they are called.

use crate::losses::part_circle;
use crate::plans::{all_but_a, all_registers, part};
use gb_dataflow::plan::Plan;
use gb_dataflow::types::Run;
use std::alloc::{AllocError, Global};
use std::collections::BTreeSet;

/// The procedures that call a procedure, directly or by others, or that are called by it.
fn reached(
    alloc: Global,
    run: &Run<'_>,
    number: usize,
    are_callers: bool,
) -> Result<BTreeSet<usize>, AllocError> {
    let mut seen = BTreeSet::new(alloc);
    let mut left = Vec::new(alloc);
    left.push(number)?;
    for _ in 0..=run.procedures.len() {
        let Some(at) = left.pop() else { break };
        for call in run.calls.iter() {
            let (from, to) = if are_callers {
                (call.callee, call.caller)
            } else {
                (call.caller, call.callee)
            };
            if from == at && seen.insert(to)? {
                left.push(to)?;
            }
        }
    }
    Ok(seen)
}

/// A procedure may be running when it is called: the procedures of the cycle are told apart by registers.
pub(crate) fn plan_recursion(
    alloc: Global,
    run: &Run<'_>,
    number: usize,
) -> Result<Option<Plan>, AllocError> {
    let callers = reached(alloc, run, number, true)?;
    let callees = reached(alloc, run, number, false)?;
    if let Some(plan) = part_circle(alloc, run, &callers, &callees)? {
        return Ok(Some(plan));
    }
    for registers in [all_but_a(), all_registers()] {
        for member in callers.iter() {
            if callees.contains(member) {
                if let Some(plan) = part(alloc, run, *member, &registers)? {
                    return Ok(Some(plan));
                }
            }
        }
    }
    Ok(None)
}
