//! Whether a state of a certificate stands for others, in its bytes.

ghost use Rattle.std.specs.Prelude.{◌≡◌, ◌≤◌, ◌<◌, ◌&&◌, [], length, is_none};
ghost use Rattle.gb_domain.specs.RelationRules.{test_alone};
ghost use Rattle.gb_cert.specs.Below.gb_states.Checked.{listed_cells};
ghost use Rattle.gb_product.specs.Below.gb_abs.Covering.{covers_items};
ghost use Rattle.gb_product.specs.Below.gb_relations.Transfer.{values_of};
ghost use Rattle.gb_product.specs.Below.gb_summaries.Covering.{covers_summary};
ghost use Rattle.gb_product.specs.Covering.{covers, covers_cells, covers_relations};
ghost use Rattle.gb_calls.specs.Parts.{with_parts};

use crate::in_bytes::{append_cells, are_none, covers_core_in, covers_items_in};
use arrayvec::ArrayVec;
use gb_cert::{StateRef, Told, test_alone};
use gb_domain::pairs::Pairs;
use gb_domain::relations::Relations;
use gb_domain::summary::Summary;
use gb_product::covering::{covers_relations, covers_said};
use gb_product::{Program, States, covers_cells};

/// Whether all of a state but the core stands for that of others, where it has cells; what it tells after its items is given. Kept out
/// of line, so that cells are decoded only then.
#[inline(never)]
fn covers_celled(
    program: &Program<'_>,
    states: &States<'_>,
    claimed: &StateRef<'_>,
    told: &Told<'_>,
) -> bool
    requires relations { told.now.relations ≡ claimed.now.relations }
    requires summary { told.now.summary ≡ claimed.now.summary }
    requires listed { listed_cells told.now.cells.now ≡ claimed.now.cells }
    requires few { length told.now.cells.now ≤ 320 }
    ensures { result ≡ (((covers_items states.now.lists.now.items claimed.now.items && covers_cells program.now (values_of states.now.core.now.registers states.now.relations.now.pairs) states.now.lists.now.cells states.now.summary.now claimed.now.cells) && covers_relations program.now states.now.core.now.registers states.now.lists.now.cells states.now.summary.now states.now.relations.now claimed.now.relations) && covers_summary program.now (values_of states.now.core.now.registers states.now.relations.now.pairs) states.now.core.now.ctl states.now.lists.now.cells states.now.summary.now claimed.now.cells claimed.now.summary) }
{
    let mut cells = ArrayVec::new();
    append_cells(&mut cells, told.cells);
    let kept = cells.as_slice();
    covers_items_in(states.lists.items(), claimed.items())
        && covers_cells(program, states, kept)
        && covers_relations(program, states, &told.relations)
        && covers_said(program, states, kept, &told.summary)
}

/// Whether all of a state but the core stands for that of others, where it has no cells; what it tells after its items is given.
fn covers_uncelled(
    program: &Program<'_>,
    states: &States<'_>,
    claimed: &StateRef<'_>,
    relations: &Relations,
    summary: &Summary,
) -> bool
    requires relations { relations.now ≡ claimed.now.relations }
    requires summary { summary.now ≡ claimed.now.summary }
    ensures { result ≡ ((covers_items states.now.lists.now.items claimed.now.items && covers_relations program.now states.now.core.now.registers states.now.lists.now.cells states.now.summary.now states.now.relations.now claimed.now.relations) && covers_summary program.now (values_of states.now.core.now.registers states.now.relations.now.pairs) states.now.core.now.ctl states.now.lists.now.cells states.now.summary.now [] claimed.now.summary) }
{
    covers_items_in(states.lists.items(), claimed.items())
        && covers_relations(program, states, relations)
        && covers_said(program, states, &[], summary)
}

/// Whether nothing is asked that is about the whole program: the stack isn't put aside.
fn covers_nothing(states: &States<'_>) -> bool
    ensures { result ≡ is_none states.now.summary.now.aside }
{
    states.summary.aside().is_none()
}

/// Whether all of a state but the core stands for that of others, where it may hold some.
#[tactic(auto, using(crate::proofs::CoveringLaws::covers_uncelled))]
fn covers_read(program: &Program<'_>, states: &States<'_>, claimed: &StateRef<'_>) -> bool
    ensures { result ≡ (((covers_items states.now.lists.now.items claimed.now.items && covers_cells program.now (values_of states.now.core.now.registers states.now.relations.now.pairs) states.now.lists.now.cells states.now.summary.now claimed.now.cells) && covers_relations program.now states.now.core.now.registers states.now.lists.now.cells states.now.summary.now states.now.relations.now claimed.now.relations) && covers_summary program.now (values_of states.now.core.now.registers states.now.relations.now.pairs) states.now.core.now.ctl states.now.lists.now.cells states.now.summary.now claimed.now.cells claimed.now.summary) }
{
    let told = claimed.told();
    if told.cells.is_empty() {
        covers_uncelled(program, states, claimed, &told.relations, &told.summary)
    } else {
        covers_celled(program, states, claimed, &told)
    }
}

/// The bounds of pairs are words.
fn holds_words(pairs: Pairs)
    ensures bc { pairs.bc.bounds.last < 65536 }
    ensures de { pairs.de.bounds.last < 65536 }
    ensures hl { pairs.hl.bounds.last < 65536 }
{}

/// Whether a test stands for what is known together of states, where nothing else is claimed. Where no test is claimed either
/// nothing is asked of them.
#[inline(always)]
fn covers_test(program: &Program<'_>, states: &States<'_>, test: Option<u8>) -> bool
    ensures { result ≡ covers_relations program.now states.now.core.now.registers states.now.lists.now.cells states.now.summary.now states.now.relations.now (test_alone test) }
{
    holds_words(states.relations.pairs);
    match test {
        None => true,
        Some(_) => covers_relations(program, states, &test_alone(test)),
    }
}

/// Whether a state without items, cells and what is said of the whole program stands for others, their cores apart.
#[inline(always)]
fn covers_bare(program: &Program<'_>, states: &States<'_>, test: Option<u8>) -> bool
    ensures { result ≡ ((covers_items states.now.lists.now.items [] && covers_relations program.now states.now.core.now.registers states.now.lists.now.cells states.now.summary.now states.now.relations.now (test_alone test)) && is_none states.now.summary.now.aside) }
{
    are_none(states.lists.items()) && covers_test(program, states, test) && covers_nothing(states)
}

/// Whether all of a state but the core stands for that of others, where it may hold some. Mostly it is claimed alone that facts hold,
/// which hold already.
#[inline(always)]
fn covers_listed(program: &Program<'_>, states: &States<'_>, claimed: &StateRef<'_>) -> bool
    ensures { result ≡ (((covers_items states.now.lists.now.items claimed.now.items && covers_cells program.now (values_of states.now.core.now.registers states.now.relations.now.pairs) states.now.lists.now.cells states.now.summary.now claimed.now.cells) && covers_relations program.now states.now.core.now.registers states.now.lists.now.cells states.now.summary.now states.now.relations.now claimed.now.relations) && covers_summary program.now (values_of states.now.core.now.registers states.now.relations.now.pairs) states.now.core.now.ctl states.now.lists.now.cells states.now.summary.now claimed.now.cells claimed.now.summary) }
{
    holds_words(states.relations.pairs);
    if let Some(level) = claimed.level()
        && are_none(states.lists.items())
        && states.lists.cells().len() == 0
        && states.summary.aside().is_none()
        && level <= states.summary.level()
    {
        return true;
    }
    covers_read(program, states, claimed)
}

/// Whether all of a state but the core stands for that of others.
#[inline(always)]
#[tactic(auto, using(crate::proofs::CoveringLaws::covers_bare))]
fn covers_rest(program: &Program<'_>, states: &States<'_>, claimed: &StateRef<'_>) -> bool
    ensures { result ≡ (((covers_items states.now.lists.now.items claimed.now.items && covers_cells program.now (values_of states.now.core.now.registers states.now.relations.now.pairs) states.now.lists.now.cells states.now.summary.now claimed.now.cells) && covers_relations program.now states.now.core.now.registers states.now.lists.now.cells states.now.summary.now states.now.relations.now claimed.now.relations) && covers_summary program.now (values_of states.now.core.now.registers states.now.relations.now.pairs) states.now.core.now.ctl states.now.lists.now.cells states.now.summary.now claimed.now.cells claimed.now.summary) }
{
    if claimed.has_lists() {
        covers_listed(program, states, claimed)
    } else {
        covers_bare(program, states, claimed.test())
    }
}

/// Whether in a program a state stands for each machine state that these stand for. Only its core is read where that doesn't, and
/// where nothing but a core is in it.
#[tactic(auto, unfolding(gb_product::specs::Covering::covers))]
pub fn covers_states(program: &Program<'_>, states: &States<'_>, claimed: &StateRef<'_>) -> bool
    ensures { result ≡ covers program.now (with_parts states.now.core.now states.now.relations.now states.now.summary.now states.now.lists.now) claimed.now }
{
    let (is_fourth, bytes) = claimed.core_bytes();
    covers_core_in(program.kind, states.core, is_fourth, bytes)
        && covers_rest(program, states, claimed)
}
