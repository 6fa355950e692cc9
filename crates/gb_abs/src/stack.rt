//! The bytes that a procedure pushed, word by word, in abstract states.

ghost use Rattle.std.specs.Prelude.{◌≡◌, ◌+◌, ◌≤◌, ◌↔◌, nat_lt, length, Some, None, IsSome, IfSome, if◌then◌else◌};
ghost use Rattle.gb_domain.specs.Limits.{item_room};
ghost use Rattle.gb_abs.specs.Stack.{pushed, youngest, popped};
ghost use Rattle.gb_abs.specs.Sound.{IsSoundPush, IsSoundPop};

use arrayvec::ArrayVec;
use gb_domain::types::{Abs, Halves, Rules, Val};

/// A word that was popped, and the state without it.
#[derive(Drop)]
pub struct Popped {
    pub word: Halves,
    pub state: Abs,
}

/// The state with other items. All else stays.
pub(crate) fn with_items(state: &Abs, items: ArrayVec<Val, 255>) -> Abs
    ensures { result ≡ record state.now { items = items.items } }
{
    let mut cells = ArrayVec::new();
    if cells.try_extend_from_slice(state.cells()).is_err() {
        unreachable!();
    }
    Abs::of_all_parts(
        *state.core(),
        items,
        cells,
        *state.relations(),
        state.summary().copied(),
    )
}

/// The state with the word's bytes behind the others, if there is room for them.
#[tactic(auto, unfolding(crate::specs::Stack::pushed))]
fn pushed_or_full(rules: Rules, state: &Abs, word: Halves) -> Option<Abs>
    ensures { result ≡ (if nat_lt (item_room rules) (length state.now.items + 2) then None else Some (pushed word state.now)) }
{
    let held = state.items();
    if held.len() + 2 > rules.item_room() {
        return None;
    }
    let mut items = ArrayVec::new();
    if items.try_extend_from_slice(held).is_err() {
        unreachable!();
    }
    items.push(word.high);
    items.push(word.low);
    Some(with_items(state, items))
}

/// The word that was pushed last, and the state without it, if there is one.
#[tactic(auto, using(crate::proofs::StackLaws::youngest_is), unfolding(crate::specs::Stack::popped))]
fn split(state: &Abs) -> Option<Popped>
    ensures variant { IsSome result ↔ (2 ≤ length state.now.items) }
    ensures word { IfSome result (λ p. youngest state.now ≡ Some p.word) }
    ensures state { IfSome result (λ p. p.state ≡ popped state.now) }
{
    let [below @ .., high, low] = state.items() else {
        return None;
    };
    let mut items = ArrayVec::new();
    if items.try_extend_from_slice(below).is_err() {
        unreachable!();
    }
    Some(Popped {
        word: Halves {
            high: *high,
            low: *low,
        },
        state: with_items(state, items),
    })
}

/// A word is pushed, its high byte first. None where there is no room for it.
#[tactic(auto, using(crate::proofs::StackLaws::push_sound))]
pub fn push(rules: Rules, state: &Abs, word: Halves) -> Option<Abs>
    ensures exact { result ≡ (if nat_lt (item_room rules) (length state.now.items + 2) then None else Some (pushed word state.now)) }
    ensures sound { IfSome result (λ after. IsSoundPush state.now word after) }
{
    pushed_or_full(rules, state, word)
}

/// The word that was pushed last, and the state without it, if there is one.
#[tactic(auto, using(crate::proofs::StackLaws::pop_sound))]
pub fn pop(state: &Abs) -> Option<Popped>
    ensures variant { IsSome result ↔ (2 ≤ length state.now.items) }
    ensures word { IfSome result (λ p. youngest state.now ≡ Some p.word) }
    ensures state { IfSome result (λ p. p.state ≡ popped state.now) }
    ensures sound { IfSome result (λ p. IsSoundPop state.now p.word p.state) }
{
    split(state)
}
