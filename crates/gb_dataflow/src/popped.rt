//! Return words that a routine pops itself: compiled code drops its caller's arguments so, and jumps to where it returns.

use crate::plan::{Edit, Plan, unless_taken_back};
use crate::slices::callee_at;
use crate::sources::{meet, written};
use crate::spots::op_at;
use crate::ways::Ways;
use gb_fixpoint::Rules;
use gb_fixpoint::gb_ops::op::Op;
use gb_fixpoint::limits::SLICE;
use gb_fixpoint::register_set::RegisterSet;
use gb_fixpoint::types::{Run, Spot};
use std::alloc::{AllocError, Global};

/// The most instructions from the pop to the jump.
const BEHIND_POP: u32 = 8;

/// Where some registers were popped that a spot jumps by.
fn pop_before(run: &Run<'_>, ways: &Ways, spot: Spot, wanted: &RegisterSet) -> Option<Spot> {
    let mut at = spot.point;
    for _ in 0..BEHIND_POP {
        at = ways.only_before(at)?;
        let before = Spot {
            procedure: spot.procedure,
            point: at,
        };
        let op = op_at(run, before)?;
        if meet(&written(op), wanted) {
            return match op {
                Op::Pop(_) => Some(before),
                _ => None,
            };
        }
    }
    None
}

/// How many bytes are on the stack in each node at a spot, where that is one number.
fn held_at(run: &Run<'_>, spot: Spot) -> Option<usize> {
    let mut held = None;
    for number in run.nodes_at(spot) {
        let bytes = run.nodes.get(*number)?.state.items().len();
        match held {
            Some(other) if other != bytes => return None,
            _ => held = Some(bytes),
        }
    }
    held
}

/// Whether the two bytes on top of so many are known in each node at a spot.
fn is_word_known(run: &Run<'_>, spot: Spot, held: usize) -> bool {
    for number in run.nodes_at(spot) {
        let Some(node) = run.nodes.get(*number) else {
            return false;
        };
        for above in [1, 2] {
            let is_known = match node.state.items().get(held.saturating_sub(above)) {
                Some(item) => item.lo == item.hi,
                None => false,
            };
            if !is_known {
                return false;
            }
        }
    }
    true
}

/// The call that took over the return word that a spot pops, with the arguments above it, so that it is known no more behind it: its
/// callee joins what its calls have there. What is called is followed. By the rules of version 3.
pub fn follow_taker(
    alloc: Global,
    run: &Run<'_>,
    ways: &Ways,
    spot: Spot,
    wanted: &RegisterSet,
) -> Result<Option<Plan>, AllocError> {
    if run.rules() == Rules::Simple {
        return Ok(None);
    }
    let Some(mut at) = pop_before(run, ways, spot, wanted) else {
        return Ok(None);
    };
    let Some(held) = held_at(run, at) else {
        return Ok(None);
    };
    for _ in 0..SLICE {
        let Some(point) = ways.only_before(at.point) else {
            return Ok(None);
        };
        let before = Spot {
            procedure: spot.procedure,
            point,
        };
        if !is_word_known(run, at, held) && is_word_known(run, before, held) {
            return followed_at(alloc, run, before);
        }
        at = before;
    }
    Ok(None)
}

/// What is called at a spot is followed there, if it isn't yet.
fn followed_at(alloc: Global, run: &Run<'_>, spot: Spot) -> Result<Option<Plan>, AllocError> {
    match op_at(run, spot) {
        Some(op) => match callee_at(run, spot, op) {
            Some(callee) if !run.configuration.inlined.contains(&callee) => {
                let plan = Plan::of(alloc, Edit::Inline(callee))?;
                Ok(unless_taken_back(run, plan))
            }
            _ => Ok(None),
        },
        None => Ok(None),
    }
}
