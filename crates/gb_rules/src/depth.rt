//! How deep the stack may grow.

ghost use Rattle.std.specs.Prelude.{◌≡◌, ◌<◌, length};
ghost use Rattle.gb_successors.specs.Below.gb_abs_effects.Targets as Targets;
ghost use Rattle.gb_rules.specs.Rules as Ruled;

use gb_calls::NodeRef;
use gb_ops::op::{Op, Pair};
use gb_successors::{Abs, Rules};

/// Whether so many bytes are more than the need, or than a state can hold.
#[tactic(auto, unfolding(crate::specs::Opened::item_room))]
pub(crate) fn is_deep(rules: Rules, need: u16, bytes: usize) -> bool
    ensures { result ≡ Ruled.is_deep rules need bytes }
{
    usize::from(need) < bytes || rules.item_room() < bytes
}

fn is_push(op: Op) -> bool
    ensures { result ≡ Targets.is_push op }
{
    matches!(op, Op::Push(_))
}

/// Whether PUSH pushes a word over the need, or over the bytes that a state of versions 1 and 2 can hold.
#[tactic(auto, unfolding(crate::specs::Rules::pushes_too_deep))]
fn pushes_too_deep(need: u16, node: &NodeRef<'_>, state: &Abs, op: Op) -> bool
    requires { state.now ≡ node.now.state }
    ensures { result ≡ Ruled.pushes_too_deep need node.now op }
{
    is_push(op) && is_deep(Rules::Simple, need, state.items().len() + 2)
}

/// How many bytes are held behind an instruction that puts some on, or adds a number to SP.
#[tactic(auto, unfolding(crate::specs::Rules::bytes_after))]
fn bytes_after(op: Op, held: usize) -> Option<usize>
    requires { held < 65536 }
    ensures { result ≡ Ruled.bytes_after op held }
{
    match op {
        Op::Push(_) | Op::CallIf(_, _) | Op::Call(_) | Op::Restart(_) => Some(held + 2),
        Op::DecrementPair(Pair::Sp) => Some(held + 1),
        Op::AddSp(e8) => {
            if e8 < 128 {
                Some(held.saturating_sub(usize::from(e8)))
            } else {
                Some(held + (256 - usize::from(e8)))
            }
        }
        _ => None,
    }
}

/// Whether more bytes are held behind an instruction that is taken than the need, or than a state can hold.
fn grows_over(need: u16, node: &NodeRef<'_>, state: &Abs, op: Op) -> bool
    requires { state.now ≡ node.now.state }
    ensures { result ≡ Ruled.is_deep_if need (Ruled.bytes_after op (length node.now.state.items)) }
{
    match bytes_after(op, state.items().len()) {
        Some(bytes) => is_deep(Rules::Extended, need, bytes),
        None => false,
    }
}

/// Whether the stack grows too deep behind the instruction, by what is asked of it alone.
pub(crate) fn moves_alone_too_deep(
    rules: Rules,
    need: u16,
    node: &NodeRef<'_>,
    state: &Abs,
    op: Op,
) -> bool
    requires { state.now ≡ node.now.state }
    ensures { result ≡ Ruled.moves_alone_too_deep rules need node.now op }
{
    match rules {
        Rules::Simple => pushes_too_deep(need, node, state, op),
        Rules::Extended => false,
    }
}

/// Whether it grows too deep where the instruction is taken.
pub(crate) fn taken_too_deep(
    rules: Rules,
    need: u16,
    node: &NodeRef<'_>,
    state: &Abs,
    op: Op,
) -> bool
    requires { state.now ≡ node.now.state }
    ensures { result ≡ Ruled.taken_too_deep rules need node.now op }
{
    match rules {
        Rules::Simple => false,
        Rules::Extended => grows_over(need, node, state, op),
    }
}
