//! Whether one whole abstract state stands for all that another one does.

ghost use Rattle.std.specs.Prelude.{◌≡◌, ◌<◌, true, not};
ghost use Rattle.gb_domain.specs.RelationRules.{is_known, are_unknown};
ghost use Rattle.gb_product.specs.Covering as Covering;
ghost use Rattle.gb_product.specs.Sound.{IsPartOf};
ghost use Rattle.gb_summaries.specs.Below.gb_relations.Transfer.{values_of};
ghost use Rattle.gb_summaries.specs.Covering.{covers_summary};

use crate::bytes::covers_lists;
use crate::parts::holds_words;
use crate::read::read_in;
use crate::states::States;
use gb_abs_effects::covers_core;
use gb_domain::pairs::{PairFacts, Pairs, WordPair};
use gb_domain::places::OneByte;
use gb_domain::program::Program;
use gb_domain::relations::Relations;
use gb_domain::summary::Summary;
use gb_domain::types::{Abs, Cell};
use gb_summaries::covering::covers_summary;
use gb_summaries::{covers_byte, covers_pairs, has_cell, has_place, is_same_pair};

fn covers_zero(s: Option<WordPair>, t: Option<WordPair>) -> bool
    ensures { result ≡ Covering.covers_zero s t }
{
    match (s, t) {
        (_, None) => true,
        (None, Some(_)) => false,
        (Some(s), Some(t)) => is_same_pair(s, t),
    }
}

/// Whether nothing is known of a pair beside its bytes.
fn is_unknown(facts: PairFacts) -> bool
    ensures { result ≡ not (is_known facts) }
{
    facts.link.is_none() && facts.bounds.first == 0 && facts.bounds.last == 0xFFFF
}

fn are_unknown(pairs: Pairs) -> bool
    ensures { result ≡ are_unknown pairs }
{
    is_unknown(pairs.bc) && is_unknown(pairs.de) && is_unknown(pairs.hl)
}

/// Whether nothing is known together.
fn is_nothing(relations: &Relations) -> bool
    ensures { result ≡ Covering.is_nothing relations.now }
{
    !has_place(&relations.byte)
        && relations.byte.test.is_none()
        && relations.zero.is_none()
        && are_unknown(relations.pairs)
}

/// The places that hold one byte, where covering asks for them.
fn places_by(is_whole: bool, relations: &Relations) -> Option<OneByte>
    ensures { result ≡ Covering.places_by is_whole relations.now }
{
    if is_whole { Some(relations.byte) } else { None }
}

#[tactic(auto, unfolding(crate::specs::Covering::covers_relations))]
fn covers_each(program: &Program<'_>, states: &States<'_>, claimed: &Relations) -> bool
    ensures { result ≡ Covering.covers_relations program.now states.now.core.now.registers states.now.lists.now.cells states.now.summary.now states.now.relations.now claimed.now }
{
    let known = states.relations;
    covers_byte(&known.byte, &claimed.byte)
        && covers_zero(known.zero, claimed.zero)
        && covers_pairs(
            places_by(program.is_whole, known),
            &states.values(),
            &read_in(program, states, &known.pairs),
            &read_in(program, states, &claimed.pairs),
            &claimed.pairs,
        )
}

/// Whether all that is claimed together is known of states.
#[tactic(auto, using(crate::proofs::NothingLaws::nothing_covered))]
pub fn covers_relations(program: &Program<'_>, states: &States<'_>, claimed: &Relations) -> bool
    ensures { result ≡ Covering.covers_relations program.now states.now.core.now.registers states.now.lists.now.cells states.now.summary.now states.now.relations.now claimed.now }
{
    holds_words(states.relations.pairs);
    is_nothing(claimed) || covers_each(program, states, claimed)
}

/// Whether nothing is said but that facts hold which hold by another summary too, by which the stack isn't put aside.
fn says_less(summary: &Summary, claimed: &Summary) -> bool
    ensures { result ≡ Covering.says_less summary.now claimed.now }
{
    summary.aside().is_none() && claimed.level() <= summary.level() && claimed.is_level_alone()
}

/// Whether no cell goes.
fn are_kept(cells: &[Cell], kept: &[Cell]) -> bool
    ensures { result ≡ Covering.are_kept cells.now kept.now }
{
    cells.iter().all(|cell| has_cell(kept, cell.address))
}

/// Whether what is said of the whole program with these cells holds of states. Where nothing is said, only the stack is asked about.
/// Facts that held hold still where no cell goes.
#[tactic(auto, using(crate::proofs::SilenceLaws::covers_silence, crate::proofs::SilenceLaws::covers_level))]
pub fn covers_said(
    program: &Program<'_>,
    states: &States<'_>,
    kept: &[Cell],
    claimed: &Summary,
) -> bool
    ensures { result ≡ covers_summary program.now (values_of states.now.core.now.registers states.now.relations.now.pairs) states.now.core.now.ctl states.now.lists.now.cells states.now.summary.now kept.now claimed.now }
{
    let summary = states.summary;
    if claimed.is_silent() {
        return summary.aside().is_none();
    }
    if says_less(summary, claimed) && are_kept(states.lists.cells(), kept) {
        return true;
    }
    covers_summary(
        program,
        &states.values(),
        &states.core.ctl,
        states.lists.cells(),
        summary,
        kept,
        claimed,
    )
}

#[tactic(auto, unfolding(crate::specs::Covering::covers))]
fn covers_all(program: &Program<'_>, s: &Abs, t: &Abs) -> bool
    ensures { result ≡ Covering.covers program.now s.now t.now }
{
    let states = States::of(s);
    covers_core(program.kind, s.core(), t.core())
        && covers_lists(program, &states, t)
        && covers_relations(program, &states, t.relations())
        && covers_said(program, &states, t.cells(), t.summary())
}

/// Whether in a program t stands for each machine state that s stands for (abstract interpretation: inclusion; the tests are own).
#[tactic(auto, using(crate::proofs::CoveringLaws::covers_sound))]
pub fn covers(program: &Program<'_>, s: &Abs, t: &Abs) -> bool
    ensures exact { result ≡ Covering.covers program.now s.now t.now }
    ensures sound { result ≡ true → IsPartOf program.now s.now t.now }
{
    covers_all(program, s, t)
}
