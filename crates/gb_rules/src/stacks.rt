//! Whether an instruction finds a stack that it can work with.

ghost use Rattle.std.specs.Prelude.{◌≡◌};
ghost use Rattle.gb_successors.specs.Below.gb_abs_effects.Targets as Targets;
ghost use Rattle.gb_rules.specs.Rules as Ruled;

use gb_calls::NodeRef;
use gb_ops::machine::Region;
use gb_ops::op::{Op, Pair};
use gb_successors::stacks::{Around, Stack, StackMove, around_of, is_located, stack_move};
use gb_successors::successor::pointer_in;
use gb_successors::successors::product_before;
use gb_successors::{Abs, AbsWrite, Bounds, Product, Program, Rules};

fn is_sp(pair: Pair) -> bool
    ensures { result ≡ Targets.is_sp pair }
{
    matches!(pair, Pair::Sp)
}

/// Whether an instruction finds a stack that it can't work with, by the rules of versions 1 and 2: a word is pushed without a
/// known stack, POP finds none, or SP would be another one than what is known of it. LD SP,n16 is main's, to the
/// address behind the region.
#[tactic(auto, unfolding(crate::specs::Rules::breaks_simple_stack))]
fn breaks_simple_stack(region: Region, node: &NodeRef<'_>, state: &Abs, op: Op) -> bool
    requires { state.now ≡ node.now.state }
    ensures { result ≡ Ruled.breaks_simple_stack region node.now op }
{
    match op {
        Op::LoadPair(Pair::Sp, word) => {
            node.procedure() != 0 || u32::from(word) != u32::from(region.last) + 1
        }
        Op::Push(_) | Op::CallIf(_, _) | Op::Call(_) | Op::Restart(_) => !state.core().stack_set,
        Op::Pop(_) => !state.core().stack_set || state.items().len() < 2,
        Op::IncrementPair(pair) | Op::DecrementPair(pair) => is_sp(pair),
        Op::AddSp(_) | Op::LoadSpHl => true,
        _ => false,
    }
}

/// Whether SP is set to an address that is neither the procedure's nor main's.
fn sets_lost(stack: Stack, around: Around, op: Op, hl: Option<Bounds>) -> bool
    ensures { result ≡ Ruled.sets_lost stack around op hl }
{
    matches!(
        stack_move(stack, around, op, AbsWrite::Nothing, hl),
        StackMove::Lost
    )
}

/// Whether LD SP,HL sets it so from these states. Where nothing is meant, nothing is asked.
fn sets_lost_from(stack: Stack, state: &Abs, product: &Option<Product>) -> bool
    ensures { result ≡ Ruled.sets_lost_from stack state.now product.now }
{
    match product {
        None => false,
        Some(product) => sets_lost(
            stack,
            around_of(stack, state, &product.core),
            Op::LoadSpHl,
            pointer_in(stack, Op::LoadSpHl, product),
        ),
    }
}

/// Whether SP doesn't stand where the items end, or fewer bytes are held.
fn lacks_bytes(count: usize, state: &Abs) -> bool
    ensures { result ≡ Ruled.lacks_bytes count state.now }
{
    !is_located(state) || state.items().len() < count
}

/// Whether POP finds no word to take off. Where the stack is put aside it takes nothing off.
fn lacks_word(aside: Option<Bounds>, state: &Abs) -> bool
    ensures { result ≡ Ruled.lacks_word aside state.now }
{
    match aside {
        None => lacks_bytes(2, state),
        Some(_) => false,
    }
}

/// Whether an instruction breaks what version 3 asks of the stack: SP is set to a known address, one of the procedure's or of main's; what moves it
/// otherwise finds the stack set, and as many bytes as it takes off.
#[tactic(auto, unfolding(crate::specs::Rules::breaks_extended_stack))]
fn breaks_extended_stack(
    program: &Program<'_>,
    stack: Stack,
    node: &NodeRef<'_>,
    state: &Abs,
    op: Op,
) -> bool
    requires { state.now ≡ node.now.state }
    ensures { result ≡ Ruled.breaks_extended_stack program.now stack node.now op }
{
    match op {
        Op::LoadPair(Pair::Sp, _) => {
            sets_lost(stack, around_of(stack, state, state.core()), op, None)
        }
        Op::LoadSpHl => {
            let (rules, entered) = (stack.setting.rules, &stack.setting.entered);
            let before = product_before(program, rules, entered, state);
            sets_lost_from(stack, state, &before)
        }
        Op::Push(_) | Op::CallIf(_, _) | Op::Call(_) | Op::Restart(_) => lacks_bytes(0, state),
        Op::Pop(_) => lacks_word(state.summary().aside(), state),
        Op::ReturnIf(_) | Op::Return | Op::ReturnFromInterrupt | Op::EnableInterrupts => {
            state.summary().aside().is_some()
        }
        Op::IncrementPair(Pair::Sp) => lacks_bytes(1, state),
        Op::DecrementPair(Pair::Sp) => lacks_bytes(0, state),
        Op::AddSp(e8) => lacks_bytes(if e8 < 128 { usize::from(e8) } else { 0 }, state),
        _ => false,
    }
}

/// Whether an instruction moves SP as it may not.
pub(crate) fn breaks_stack(
    program: &Program<'_>,
    stack: Stack,
    node: &NodeRef<'_>,
    state: &Abs,
    op: Op,
) -> bool
    requires { state.now ≡ node.now.state }
    ensures { result ≡ Ruled.breaks_stack program.now stack node.now op }
{
    match stack.setting.rules {
        Rules::Simple => breaks_simple_stack(stack.region, node, state, op),
        Rules::Extended => breaks_extended_stack(program, stack, node, state, op),
    }
}
