//! Return words that a call took over, with the arguments above them, and joined with those of its other calls.

use gb_dataflow::Rules;
use gb_dataflow::gb_ops::op::Op;
use gb_dataflow::limits::{FEW_VALUES, SLICE};
use gb_dataflow::plan::Plan;
use gb_dataflow::register_set::RegisterSet;
use gb_dataflow::slices::{SliceBy, SliceGoal, slice_to_call};
use gb_dataflow::sources::stacked;
use gb_dataflow::spots::op_at;
use gb_dataflow::types::{Run, RunNode, Spot};
use gb_dataflow::ways::Ways;
use std::alloc::{AllocError, Global};

/// Whether a node has a byte on the stack at a place, and knows it.
fn knows_item(node: &RunNode, place: usize) -> bool {
    match node.state.items().get(place) {
        Some(item) => item.lo == item.hi,
        None => false,
    }
}

/// Whether each node at a spot knows the bytes of a word on the stack, whose upper one is at a place.
fn know_word(run: &Run<'_>, spot: Spot, place: usize) -> bool {
    for number in run.nodes_at(spot) {
        if let Some(node) = run.nodes.get(*number) {
            let knows = knows_item(node, place) && knows_item(node, place.saturating_sub(1));
            if !knows {
                return false;
            }
        }
    }
    true
}

/// Where a return takes a word that was pushed right before, as a jump: the push, and the registers of its pair.
pub(crate) fn pushed_before(run: &Run<'_>, ways: &Ways, spot: Spot) -> Option<(Spot, RegisterSet)> {
    let point = ways.only_before(spot.point)?;
    let before = Spot { point, ..spot };
    match op_at(run, before)? {
        Op::Push(pair) => {
            let [high, low] = stacked(pair);
            Some((before, RegisterSet::of(&[high?, low?])))
        }
        _ => None,
    }
}

/// A return by a word that isn't known, and was before some call: what is called there is followed. By the rules of version 3.
pub(crate) fn plan_lost_return(
    alloc: Global,
    run: &Run<'_>,
    node: &RunNode,
) -> Result<Option<Plan>, AllocError> {
    let Some(place) = node.state.items().len().checked_sub(1) else {
        return Ok(None);
    };
    if run.rules() == Rules::Simple {
        return Ok(None);
    }
    let ways = Ways::of(alloc, run, node.key.procedure)?;
    let mut at = node.spot();
    for _ in 0..SLICE {
        let Some(point) = ways.only_before(at.point) else {
            return Ok(None);
        };
        let before = Spot {
            procedure: at.procedure,
            point,
        };
        if !know_word(run, at, place) && know_word(run, before, place) {
            let sought = SliceGoal {
                wanted: RegisterSet::all(),
                most: FEW_VALUES,
                by: SliceBy::Any,
            };
            return slice_to_call(alloc, run, &ways, at, &sought);
        }
        at = before;
    }
    Ok(None)
}
