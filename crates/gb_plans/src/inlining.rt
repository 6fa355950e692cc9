//! Routines that are followed in their callers after a failure.

use gb_dataflow::cause::{Cause, Failure};
use gb_dataflow::code_point::CodePoint;
use gb_dataflow::plan::{Edit, Plan, unless_taken_back};
use gb_dataflow::types::Run;
use gb_dataflow::{PADDING, Rules};
use std::alloc::{AllocError, Global};

/// Whether following a procedure in its callers may help against a failure: more is known of what it is called with then.
pub(crate) fn may_be_inlined(cause: Cause) -> bool {
    matches!(
        cause,
        Cause::Bank
            | Cause::Unreadable { .. }
            | Cause::Stack(_)
            | Cause::Recursion { .. }
            | Cause::Store { .. }
            | Cause::CartridgeRam { .. }
            | Cause::CopiesCartridgeRam { .. }
            | Cause::OamTransfer(_)
            | Cause::JumpHl
            | Cause::ReturnToUnknown
            | Cause::ReturnWithOthers
    )
}

/// The procedure of a failure is followed in its callers, by the rules of version 3, where it isn't yet.
pub fn inline_plan(
    alloc: Global,
    run: &Run<'_>,
    failure: &Failure,
) -> Result<Option<Plan>, AllocError> {
    let Some(node) = run.nodes.get(failure.node) else {
        return Ok(None);
    };
    let Some(procedure) = run.procedures.get(node.key.procedure) else {
        return Ok(None);
    };
    let target = match failure.cause {
        Cause::Recursion { target } => CodePoint::of(run.rom, &node.state.core().ctl, target),
        _ => procedure.key.point(),
    };
    let is_callee = node.key.procedure != 0
        && !procedure.key.is_handler
        && target.address != PADDING;
    if run.rules() == Rules::Simple
        || !is_callee
        || !may_be_inlined(failure.cause)
        || run.configuration.inlined.contains(&target)
    {
        return Ok(None);
    }
    let plan = Plan::of(alloc, Edit::Inline(target))?;
    Ok(unless_taken_back(run, plan))
}
