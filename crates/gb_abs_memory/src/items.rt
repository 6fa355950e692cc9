//! What a store makes of the bytes of the stack, in abstract states: by the rules of version 3 it may meet them.

ghost use Rattle.std.specs.Prelude.{◌≡◌, ◌≤◌, length, replicate};
ghost use Rattle.gb_abs.specs.Below.gb_vals.Vals.{any_val};
ghost use Rattle.gb_abs.specs.Span.{one};
ghost use Rattle.gb_abs_memory.specs.Items as Items;

use arrayvec::ArrayVec;
use gb_abs::any;
use gb_abs::located::stack_base;
use gb_abs::span::Span;
use gb_domain::types::{Abs, Core, Rules, Setting, Val};
use gb_ops::machine::Region;

/// An item of this address, after a store that sets those of a span.
fn item_after(span: Span, val: Val, address: u16, item: Val) -> Val
    ensures { result ≡ Items.item_after span val address item }
{
    if span.counts(address) { val } else { item }
}

/// The items below an address, where each that stands at one of these addresses becomes a value.
fn items_below(base: u16, span: Span, val: Val, held: &[Val]) -> ArrayVec<Val, 255>
    requires { length held.now ≤ 255 }
    ensures { result.items ≡ Items.items_below base span val held.now }
{
    let mut items = ArrayVec::new();
    let mut top = base;
    for item in held {
        top = top.saturating_sub(1);
        items.push(item_after(span, val, top, *item));
    }
    items
}

/// As many items, of any byte.
fn any_items(held: &[Val]) -> ArrayVec<Val, 255>
    requires { length held.now ≤ 255 }
    ensures { result.items ≡ replicate (length held.now) any_val }
{
    let mut items = ArrayVec::new();
    for _ in held {
        items.push(any());
    }
    items
}

/// A store changes the items that it may meet: one address sets the item there; of several, an item may be any byte after it.
fn store_to(base: Option<u16>, region: Region, span: Span, val: &Val, state: &mut Abs)
    ensures { state.new ≡ record state.old { items = Items.items_by base region span val.now state.old.items } }
{
    match base {
        Some(base) => {
            let met = if span.is_one() { *val } else { any() };
            state.set_items(items_below(base, span, met, state.items()));
        }
        None => {
            if span.may_meet(region.first, region.last) {
                state.set_items(any_items(state.items()));
            }
        }
    }
}

#[tactic(auto, unfolding(crate::specs::Items::items_stored))]
fn store_by(setting: Setting, region: Region, core: &Core, span: Span, val: &Val, state: &mut Abs)
    ensures { state.new ≡ record state.old { items = Items.items_stored setting region span val.now core.now state.old.items } }
{
    match setting.rules {
        Rules::Simple => {}
        Rules::Extended => store_to(stack_base(setting, core), region, span, val, state),
    }
}

/// A store to RAM changes the items.
pub(crate) fn store_to_items(
    setting: Setting,
    region: Region,
    span: Span,
    val: &Val,
    state: &mut Abs,
)
    ensures { state.new ≡ record state.old { items = Items.items_stored setting region span val.now state.old.core state.old.items } }
{
    let core = *state.core();
    store_by(setting, region, &core, span, val, state);
}

/// What is known of the byte at an address of the stack is known of the item there. The core says whether the stack is set.
pub fn tell_item(
    setting: Setting,
    region: Region,
    core: &Core,
    address: u16,
    val: &Val,
    state: &mut Abs,
)
    ensures { state.new ≡ record state.old { items = Items.items_stored setting region (one address) val.now core.now state.old.items } }
{
    store_by(setting, region, core, Span::one(address), val, state);
}
