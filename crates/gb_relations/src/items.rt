//! Places of the one byte among the bytes of the stack.

ghost use Rattle.std.specs.Prelude.{◌≡◌};
ghost use Rattle.gb_copies.specs.Sound.{IsPartOf};
ghost use Rattle.gb_relations.specs.Items as Items;

use gb_copies::places::without_addresses;
use gb_domain::places::{OneByte, StackBytes};
use gb_ops::machine::Region;

#[tactic(auto, unfolding(crate::specs::Items::held_places))]
fn above_freed(stack: StackBytes, byte: &OneByte) -> OneByte
    ensures { result ≡ Items.held_places stack byte.now }
{
    let top = stack.base.saturating_sub(u16::from(stack.count));
    without_addresses(stack.region.first, top.saturating_sub(1), byte)
}

/// The stack holds these items now: a byte below them is no place any more.
#[tactic(auto, using(crate::proofs::ItemLaws::held_places_part, crate::proofs::ItemLaws::held_places_left))]
pub fn held_places(stack: StackBytes, byte: &OneByte) -> OneByte
    ensures exact { result ≡ Items.held_places stack byte.now }
    ensures part { IsPartOf byte.now result }
    ensures left { Items.AreItemsLeft stack byte.now result }
{
    above_freed(stack, byte)
}

#[tactic(auto, unfolding(crate::specs::Items::places_outside))]
fn outside(region: Region, byte: &OneByte) -> OneByte
    ensures { result ≡ Items.places_outside region byte.now }
{
    without_addresses(region.first, region.last, byte)
}

/// The places but for an item.
#[tactic(auto, using(crate::proofs::ItemLaws::places_outside_part, crate::proofs::ItemLaws::places_outside_free))]
pub fn places_outside(region: Region, byte: &OneByte) -> OneByte
    ensures exact { result ≡ Items.places_outside region byte.now }
    ensures part { IsPartOf byte.now result }
    ensures outside { Items.IsOutside region byte.now result }
{
    outside(region, byte)
}
