//! Handlers that don't leave the controller as they found it.

use gb_fixpoint::cause::Cause;
use gb_fixpoint::keys::ControllerKey;
use gb_fixpoint::types::{Run, RunProcedure};
use std::alloc::{AllocError, Global};

/// Whether what may be wrong of the controller is another at an exit than at the entry: the bank that is shown, or the gate.
fn is_switched(cause: Cause, entry: &ControllerKey, exit: &ControllerKey) -> bool {
    match cause {
        Cause::Bank => {
            entry.bank != exit.bank || entry.second != exit.second || entry.mode != exit.mode
        }
        Cause::CartridgeRam { .. } | Cause::CopiesCartridgeRam { .. } => entry.gate != exit.gate,
        _ => false,
    }
}

/// Whether a procedure is a handler that may return with another bank or gate than it was entered with, whichever may be wrong.
fn may_switch(run: &Run<'_>, procedure: &RunProcedure, cause: Cause) -> bool {
    let Some(exit) = &procedure.exit else {
        return false;
    };
    let Some(number) = procedure.entry else {
        return false;
    };
    let Some(entry) = run.nodes.get(number) else {
        return false;
    };
    let before = ControllerKey::of(&entry.state.core().ctl);
    let after = ControllerKey::of(&exit.core().ctl);
    procedure.key.is_handler && is_switched(cause, &before, &after)
}

/// Where the handlers begin that may return with another bank or gate, if that may be what is wrong.
pub fn switching_handlers(
    alloc: Global,
    run: &Run<'_>,
    cause: Cause,
) -> Result<Vec<u16>, AllocError> {
    let mut targets = Vec::new(alloc);
    for procedure in &run.procedures {
        let target = procedure.key.target;
        if may_switch(run, procedure, cause) && !targets.contains(&target) {
            targets.push(target)?;
        }
    }
    Ok(targets)
}
