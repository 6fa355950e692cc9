//! Where bytes of the stack may be places of the one byte.

ghost use Rattle.std.specs.Prelude.{◌≡◌};
ghost use Rattle.gb_product.specs.Held as Held;

use gb_domain::places::StackBytes;
use gb_domain::relations::Relations;
use gb_domain::types::Setting;
use gb_ops::machine::Region;
use gb_summaries::{held_places, places_outside, without_bases};

/// The stack of a procedure where so many items are held: by the rules of version 4 they may be places, where the base is known.
#[tactic(auto, unfolding(crate::specs::Held::stack_held))]
pub fn stack_held(setting: Setting, region: Region, count: u8) -> StackBytes
    ensures { result ≡ Held.stack_held setting region count }
{
    StackBytes {
        region,
        base: if setting.is_whole { setting.base } else { 0 },
        count,
    }
}

/// What is known together where the stack holds these items now.
pub fn held_relations(stack: StackBytes, relations: &Relations) -> Relations
    ensures { result ≡ Held.held_relations stack relations.now }
{
    Relations {
        byte: held_places(stack, &relations.byte),
        ..*relations
    }
}

/// What is known together as another procedure begins: nothing of items, and no link to what a pair held as the one before was
/// entered.
pub fn relations_outside(region: Region, relations: &Relations) -> Relations
    ensures { result ≡ Held.relations_outside region relations.now }
{
    Relations {
        byte: places_outside(region, &relations.byte),
        pairs: without_bases(&relations.pairs),
        ..*relations
    }
}
