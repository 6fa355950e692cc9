//! What to follow in its callers where there would be more procedures than a certificate has room for: the smallest
//! routines first, as one that shows a bank, since a caller that gets large is harder to refine.

use gb_dataflow::code_point::CodePoint;
use gb_dataflow::limits::{NODES_A_PROCEDURE, SAVED_PROCEDURES};
use gb_dataflow::types::Run;
use gb_dataflow::{PADDING, Rules};
use std::alloc::{AllocError, Global};
use std::collections::BTreeMap;

/// The procedures of a target.
#[derive(Clone, Copy)]
struct Group {
    procedures: usize,
    /// About how many nodes their callers would get, were they followed there.
    moved: usize,
    /// How many of these there would be more than now.
    added: usize,
    /// Whether they can be.
    is_called: bool,
}

/// A target, by how many nodes its callers would get for each procedure that is saved.
#[derive(Clone, Copy, PartialEq, Eq, PartialOrd, Ord)]
struct Candidate {
    moved: usize,
    target: CodePoint,
    procedures: usize,
}

/// How many nodes each procedure has.
fn sizes(alloc: Global, run: &Run<'_>) -> Result<BTreeMap<usize, usize>, AllocError> {
    let mut sizes = BTreeMap::new(alloc);
    for node in &run.nodes {
        let size = sizes.entry(node.key.procedure)?.or_insert(0usize);
        *size = size.saturating_add(1);
    }
    Ok(sizes)
}

/// The procedures by where they begin. Main, handlers and padding aren't followed in what comes before them.
fn groups(alloc: Global, run: &Run<'_>) -> Result<BTreeMap<CodePoint, Group>, AllocError> {
    let sizes = sizes(alloc, run)?;
    let mut groups = BTreeMap::new(alloc);
    for (number, procedure) in run.procedures.iter().enumerate() {
        let size = sizes.get(&number).copied().unwrap_or(0);
        let moved = procedure.sites.len().saturating_mul(size);
        let is_called = number != 0 && !procedure.key.is_handler && procedure.key.target != PADDING;
        let group = groups.entry(procedure.key.point())?.or_insert(Group {
            procedures: 0usize,
            moved: 0usize,
            added: 0usize,
            is_called: true,
        });
        group.procedures = group.procedures.saturating_add(1);
        group.moved = group.moved.saturating_add(moved);
        group.added = group.added.saturating_add(moved.saturating_sub(size));
        group.is_called = group.is_called && is_called;
    }
    Ok(groups)
}

/// The targets that may be followed, the smallest first.
fn candidates(alloc: Global, run: &Run<'_>) -> Result<Vec<Candidate>, AllocError> {
    let mut candidates = Vec::new(alloc);
    for (target, group) in groups(alloc, run)?.iter() {
        let most = group.procedures.saturating_mul(NODES_A_PROCEDURE);
        if group.is_called && group.added <= most {
            candidates.push(Candidate {
                moved: group.moved.checked_div(group.procedures).unwrap_or(0),
                target: *target,
                procedures: group.procedures,
            })?;
        }
    }
    candidates.sort()?;
    Ok(candidates)
}

/// Targets to be followed in their callers, which saves about half of the procedures, or all that may be. By the rules of
/// versions 1 and 2 none.
pub fn targets_to_follow(alloc: Global, run: &Run<'_>) -> Result<Vec<CodePoint>, AllocError> {
    let mut targets = Vec::new(alloc);
    if run.rules() == Rules::Simple {
        return Ok(targets);
    }
    let mut saved: usize = 0;
    for candidate in &candidates(alloc, run)? {
        if saved >= SAVED_PROCEDURES {
            break;
        }
        saved = saved.saturating_add(candidate.procedures);
        targets.push(candidate.target)?;
    }
    Ok(targets)
}
