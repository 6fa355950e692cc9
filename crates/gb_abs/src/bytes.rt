//! Bytes of the stack, taken off and put on, and what is held of them where SP is set, in abstract states.

ghost use Rattle.std.specs.Prelude.{◌≡◌, true, ◌+◌, ◌-◌, ◌≤◌, ◌++◌, nat_lt, length, take, replicate, Some, None, IfSome, if◌then◌else◌};
ghost use Rattle.arrayvec.specs.ArrayVec.{array_vec_len};
ghost use Rattle.gb_domain.specs.Limits.{item_room};
ghost use Rattle.gb_vals.specs.Vals.{any_val};
ghost use Rattle.gb_abs.specs.Bytes.{without_newest, with_any_bytes, resized, IsSoundTaking, IsSoundAppending, IsSoundResizing};

use crate::stack::with_items;
use arrayvec::ArrayVec;
use gb_domain::pairs::Bounds;
use gb_domain::summary::Summary;
use gb_domain::types::{Abs, Core, Rules, Val};
use gb_vals::vals::any;

#[tactic(auto, unfolding(crate::specs::Bytes::without_newest))]
fn shortened(state: &Abs, count: u8) -> Option<Abs>
    ensures { result ≡ (if nat_lt (length state.now.items) count then None else Some (without_newest count state.now)) }
{
    let held = state.items();
    let count = count as usize;
    if held.len() < count {
        return None;
    }
    let mut items = ArrayVec::new();
    if items
        .try_extend_from_slice(&held[..held.len() - count])
        .is_err()
    {
        unreachable!();
    }
    Some(with_items(state, items))
}

/// The newest bytes of the stack are taken off. None where there are fewer.
#[tactic(auto, using(crate::proofs::ByteLaws::taking_sound))]
pub fn take_bytes(state: &Abs, count: u8) -> Option<Abs>
    ensures exact { result ≡ (if nat_lt (length state.now.items) count then None else Some (without_newest count state.now)) }
    ensures sound { IfSome result (λ after. IsSoundTaking count state.now after) }
{
    shortened(state, count)
}

/// Appends bytes of any value. There must be room.
#[tactic(auto, using(crate::proofs::ByteLaws::appended_any))]
fn append_any(items: &mut ArrayVec<Val, 255>, count: u8)
    requires { array_vec_len items.old + count ≤ 255 }
    ensures { items.new.items ≡ items.old.items ++ replicate count any_val }
{
    if count > 0 {
        items.push(any());
        append_any(items, count - 1);
    }
}

#[tactic(auto, unfolding(crate::specs::Bytes::with_any_bytes))]
fn lengthened(rules: Rules, state: &Abs, count: u8) -> Option<Abs>
    ensures { result ≡ (if nat_lt (item_room rules) (length state.now.items + count) then None else Some (with_any_bytes count state.now)) }
{
    let held = state.items();
    if held.len() + count as usize > rules.item_room() {
        return None;
    }
    let mut items = ArrayVec::new();
    if items.try_extend_from_slice(held).is_err() {
        unreachable!();
    }
    append_any(&mut items, count);
    Some(with_items(state, items))
}

/// Bytes of any value are put on the stack. None where there is no room for them.
#[tactic(auto, using(crate::proofs::ByteLaws::appending_sound))]
pub fn append_bytes(rules: Rules, state: &Abs, count: u8) -> Option<Abs>
    ensures exact { result ≡ (if nat_lt (item_room rules) (length state.now.items + count) then None else Some (with_any_bytes count state.now)) }
    ensures sound { IfSome result (λ after. IsSoundAppending count state.now after) }
{
    lengthened(rules, state, count)
}

/// The oldest bytes, as many as there are up to a count.
#[tactic(auto, using(std::proofs::lemmas::List::take_all))]
fn oldest(items: &[Val], count: usize) -> &[Val]
    ensures { result.now ≡ take count items.now }
{
    if items.len() <= count {
        items
    } else {
        &items[..count]
    }
}

/// The same is said, but for where SP is put aside.
pub fn with_aside(summary: &Summary, aside: Option<Bounds>) -> Summary
    ensures { result ≡ record summary.now { aside = aside } }
{
    let mut fills = ArrayVec::new();
    if fills.try_extend_from_slice(summary.fills()).is_err() {
        unreachable!();
    }
    Summary::of_parts(summary.level(), fills, summary.shadows(), aside)
}

/// The state with its stack set, and not put aside, and other items.
fn set_with_items(state: &Abs, items: ArrayVec<Val, 255>) -> Abs
    ensures { result ≡ record state.now { core = record state.now.core { stack_set = true }; summary = record state.now.summary { aside = None }; items = items.items } }
{
    let mut after = with_items(state, items);
    after.set_core(Core {
        stack_set: true,
        ..*state.core()
    });
    after.set_summary(with_aside(state.summary(), None));
    after
}

/// The stack items cut or filled to a count: the oldest ones stay, and missing ones are bytes of any value.
#[tactic(auto, using(crate::proofs::ByteLaws::resized_items))]
fn items_to(count: usize, held: &[Val]) -> ArrayVec<Val, 255>
    requires { count ≤ 255 }
    ensures { result.items ≡ take count held.now ++ replicate (count - length held.now) any_val }
{
    let held = oldest(held, count);
    let mut items = ArrayVec::new();
    if items.try_extend_from_slice(held).is_err() {
        unreachable!();
    }
    append_any(&mut items, (count - held.len()) as u8);
    items
}

#[tactic(auto, unfolding(crate::specs::Bytes::resized))]
fn set_to(rules: Rules, state: &Abs, count: usize) -> Option<Abs>
    ensures { result ≡ (if nat_lt (item_room rules) count then None else Some (resized count state.now)) }
{
    if count > rules.item_room() {
        return None;
    }
    Some(set_with_items(state, items_to(count, state.items())))
}

/// SP is set to as many bytes below the base of the procedure's stack: of those that the state holds the oldest stay, and where
/// there are fewer, bytes of any value are put on. None where there is no room for them.
#[tactic(auto, using(crate::proofs::ByteLaws::resizing_sound))]
pub fn resize(rules: Rules, state: &Abs, count: usize) -> Option<Abs>
    ensures exact { result ≡ (if nat_lt (item_room rules) count then None else Some (resized count state.now)) }
    ensures sound { IfSome result (λ after. IsSoundResizing count state.now after) }
{
    set_to(rules, state, count)
}
