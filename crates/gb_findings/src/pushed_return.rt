//! Returns that take bytes for the return address which the routine itself pushed: the CPU goes where these say.

use crate::chain::op_of;
use crate::path::node_at;
use gb_fixpoint::PADDING;
use gb_fixpoint::cause::{Cause, Failure};
use gb_fixpoint::code_point::CodePoint;
use gb_fixpoint::gb_ops::op::Op;
use gb_fixpoint::types::{Run, RunNode};

/// A return that takes pushed bytes for the return address.
#[derive(Clone, Copy)]
pub struct PushedReturn {
    /// Where they were pushed.
    pub pushed_at: CodePoint,
    /// The address that they are.
    pub leads_to: CodePoint,
}

/// A return of that kind, and the number of its node.
#[derive(Clone, Copy)]
pub struct WildReturn {
    pub node: usize,
    pub told: PushedReturn,
}

/// How many instructions after a return it is still looked for.
const NEAR: usize = 16;

/// The first address that isn't ROM.
const BEHIND_ROM: u16 = 0x8000;

/// Whether a failure says that unused ROM would be executed.
fn is_of_padding(failure: &Failure) -> bool {
    failure.cause == Cause::Recursion { target: PADDING }
}

/// Whether a failure says that bytes of RAM, or no code at all, would be executed. In ROM a word is also pushed on purpose.
fn is_of_data(failure: &Failure, node: &RunNode) -> bool {
    match failure.cause {
        Cause::Area => true,
        Cause::Recursion { target } => target == PADDING,
        Cause::Unreadable { .. } | Cause::UndefinedOpcode { .. } | Cause::Stop => {
            node.key.address >= BEHIND_ROM
        }
        _ => false,
    }
}

/// Whether a node's instruction is a return that leads to an address. A condition may also let it go on behind it.
fn returns_to(run: &Run<'_>, before: &RunNode, address: u16) -> bool {
    let is_return = matches!(
        op_of(run, before),
        Some(Op::Return | Op::ReturnIf(_) | Op::ReturnFromInterrupt)
    );
    let is_next = before.key.address.wrapping_add(1) == address;
    is_return && !is_next && before.key.address != address
}

/// The node of the instruction that pushed the word which a return took, if that wasn't a call. `push hl` / `ret` is a jump that
/// is meant, but not into unused ROM.
fn push_before<'a>(
    run: &'a Run<'_>,
    number: usize,
    after: &RunNode,
    failure: &Failure,
) -> Option<&'a RunNode> {
    let bytes = after.state.items().len();
    let last = run.nodes.get(number)?;
    let mut at = number;
    for _ in 0..=run.nodes.len() {
        let node = run.nodes.get(at)?;
        if node.state.items().len() <= bytes {
            let is_meant = node.key.address.wrapping_add(1) == last.key.address;
            let is_push = matches!(op_of(run, node), Some(Op::Push(_)));
            return if is_push && (!is_meant || is_of_padding(failure)) {
                Some(node)
            } else {
                None
            };
        }
        if node.key.is_entry {
            return None;
        }
        at = node.via?;
    }
    None
}

/// Whether a failure's node was reached by a return that took pushed bytes, a few instructions before.
pub fn is_by_wild_return(run: &Run<'_>, failure: &Failure) -> bool {
    wild_return(run, failure).is_some()
}

/// The return by which a failure's node was reached a few instructions before, if it took pushed bytes.
pub fn wild_return(run: &Run<'_>, failure: &Failure) -> Option<WildReturn> {
    if !is_of_data(failure, run.nodes.get(failure.node)?) {
        return None;
    }
    let mut at = failure.node;
    for _ in 0..NEAR {
        let node = run.nodes.get(at)?;
        // What runs into unused ROM enters the routine at 0038.
        if node.key.is_entry && node.key.address != PADDING {
            return None;
        }
        let before = node.via?;
        let first = node_at(run, node.via)?;
        if returns_to(run, first, node.key.address) {
            let pushed = push_before(run, before, node, failure)?;
            return Some(WildReturn {
                node: before,
                told: PushedReturn {
                    pushed_at: pushed.key.point(),
                    leads_to: node.key.point(),
                },
            });
        }
        at = before;
    }
    None
}
