//! The bytes of stack that procedures need.

use gb_fixpoint::types::{CallSite, Run};
use std::alloc::{AllocError, Global};
use std::collections::{BTreeMap, BTreeSet};

/// For each call the most bytes that its sites hold.
type Held = BTreeMap<CallSite, usize>;

/// Finds the least needs of a run's procedures: the bytes that a procedure's own nodes hold, and at each call those and the
/// return word, but for what the callee takes over, and the callee's need. Some where there are none: the number of a procedure on a cycle of calls.
pub fn find_needs(alloc: Global, run: &mut Run<'_>) -> Result<Option<usize>, AllocError> {
    let held = held_at_calls(alloc, run)?;
    set_own_needs(run);
    for _ in 0..=run.procedures.len() {
        if !raise_needs(run, &held) {
            return Ok(None);
        }
    }
    Ok(raised_need(run, &held))
}

fn held_at_calls(alloc: Global, run: &Run<'_>) -> Result<Held, AllocError> {
    let mut held = BTreeMap::new(alloc);
    for (callee, procedure) in run.procedures.iter().enumerate() {
        add_held(run, callee, &procedure.sites, &mut held)?;
    }
    Ok(held)
}

/// The bytes that the sites of a procedure hold.
fn add_held(
    run: &Run<'_>,
    callee: usize,
    sites: &BTreeSet<usize>,
    held: &mut Held,
) -> Result<(), AllocError> {
    for site in sites {
        if let Some(node) = run.nodes.get(*site) {
            let caller = node.key.procedure;
            let bytes = node.state.items().len();
            let most = held.entry(CallSite { caller, callee })?.or_insert(0);
            *most = bytes.max(*most);
        }
    }
    Ok(())
}

/// Each procedure needs the bytes that its own nodes hold.
fn set_own_needs(run: &mut Run<'_>) {
    for node in &run.nodes {
        if let Some(procedure) = run.procedures.get_mut(node.key.procedure) {
            procedure.need = procedure.need.max(node.state.items().len());
        }
    }
}

/// What a caller needs at a call.
fn need_at(run: &Run<'_>, call: &CallSite, held: usize) -> usize {
    match run.procedures.get(call.callee) {
        Some(callee) => held
            .saturating_add(2)
            .saturating_sub(usize::from(callee.key.taken))
            .saturating_add(callee.need),
        None => 0,
    }
}

/// Raises each caller's need to what its calls need. True where one was raised.
fn raise_needs(run: &mut Run<'_>, held: &Held) -> bool {
    let mut is_raised = false;
    for (call, bytes) in held {
        let need = need_at(run, call, *bytes);
        if let Some(caller) = run.procedures.get_mut(call.caller)
            && caller.need < need
        {
            caller.need = need;
            is_raised = true;
        }
    }
    is_raised
}

/// A caller whose need would be raised again.
fn raised_need(run: &Run<'_>, held: &Held) -> Option<usize> {
    for (call, bytes) in held {
        let need = need_at(run, call, *bytes);
        if let Some(caller) = run.procedures.get(call.caller)
            && caller.need < need
        {
            return Some(call.caller);
        }
    }
    None
}
