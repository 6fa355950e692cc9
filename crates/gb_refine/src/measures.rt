//! What a round asks of its run: how it ends, and how large it is.

use crate::rounds::SearchProgress;
use gb_prune::limits::{RUN_STEPS, STEPS_ASKED};
use gb_prune::{CodePoint, Run, RunEnd};
use std::alloc::{AllocError, Global};
use std::collections::BTreeMap;

/// What a run of about so many steps at most comes to; None where it may not go on so far.
pub(crate) fn outcome_of<P: SearchProgress>(
    run: &mut Run<'_>,
    most: u64,
    progress: &mut P,
) -> Result<Option<RunEnd>, AllocError> {
    let turns = most.min(RUN_STEPS) / STEPS_ASKED;
    for _ in 0..turns.max(1) {
        if let Some(end) = run.run_for(STEPS_ASKED)? {
            return Ok(Some(end));
        }
        if !progress.goes_on() {
            return Ok(None);
        }
    }
    Ok(Some(RunEnd::TooLarge))
}

/// How many pairs of nodes there are at one address of a run.
pub(crate) fn pairs_of(run: &Run<'_>) -> u64 {
    let mut pairs: u64 = 0;
    for nodes in run.at.values() {
        let count = nodes.len() as u64;
        pairs = pairs.saturating_add(count.saturating_mul(count));
    }
    pairs
}

/// How many procedures of a run begin at each point of code.
pub(crate) fn targets_of(
    alloc: Global,
    run: &Run<'_>,
) -> Result<BTreeMap<CodePoint, usize>, AllocError> {
    let mut targets = BTreeMap::new(alloc);
    for procedure in &run.procedures {
        let count = targets.entry(procedure.key.point())?.or_insert(0usize);
        *count = count.saturating_add(1);
    }
    Ok(targets)
}
