//! Links with a base: what a pair is, less what a pair held as the procedure was entered. So a procedure is known by how far it moves
//! a pointer, wherever that began. The bytes of a pair tell of themselves whether they are those that one held at entry: so a link is
//! offered only before an instruction that moves the pair.

use crate::bounds::{WORD_PAIRS, bounds_of, facts_of, halves_of, set_facts};
use crate::joining::known_of;
use crate::limits::{BASE_WIDTHS, LINK_WIDTH};
use crate::relating::{KnownRelations, are_same_pairs};
use crate::sums::{Sums, hull_of, sums_in};
use gb_verify::gb_domain::pairs::PairBounds;
use gb_verify::gb_ops::op::{Indirect, Op, Operand, Pair, Register};
use gb_verify::gb_ops::registers::Registers;
use gb_verify::{
    Abs, Bounds, Link, Origin, Other, PairFacts, Pairs, Program, Relations, Val, WordPair,
};

/// Whether a pair's bytes are those that one held as the procedure was entered.
fn is_held(pair: WordPair, held: WordPair, registers: &Registers<Val>) -> bool {
    let (high, low) = halves_of(pair);
    let (held_high, held_low) = halves_of(held);
    registers.get(high).origin == Some(Origin::of(held_high))
        && registers.get(low).origin == Some(Origin::of(held_low))
}

/// The pair that held a pair's bytes as the procedure was entered, if one did.
fn held_by(pair: WordPair, registers: &Registers<Val>) -> Option<WordPair> {
    WORD_PAIRS
        .iter()
        .copied()
        .find(|held| is_held(pair, *held, registers))
}

/// Whether a link has this base.
pub fn has_base(link: &Link, held: WordPair) -> bool {
    link.base.is_some_and(|base| are_same_pairs(base, held))
}

/// The base of a pair's link, if it has one.
fn base_in(pair: WordPair, state: KnownRelations<'_>) -> Option<WordPair> {
    state.link(pair)?.base
}

/// Whether a state has a link with a base.
pub fn has_bases(state: &Abs) -> bool {
    let pairs = &state.relations().pairs;
    WORD_PAIRS.iter().any(|pair| facts_of(*pair, pairs)
        .link
        .is_some_and(|link| link.base.is_some()))
}

/// Where a pair is by its link, less the link's base.
fn place_by_link(link: &Link, other: Bounds) -> Option<Sums> {
    let sums = Sums {
        first: link.sum,
        width: link.width,
    };
    sums_in(sums, link.factor.wrapping_neg(), other)
}

/// Where a pair is, less a base.
pub fn place_from(
    base: Option<WordPair>,
    pair: WordPair,
    state: KnownRelations<'_>,
) -> Option<Sums> {
    let Some(held) = base else {
        return Sums::of(state.bounds(pair));
    };
    if is_held(pair, held, state.registers) {
        return Some(Sums { first: 0, width: 0 });
    }
    let link = state.link(pair)?;
    if has_base(&link, held) {
        place_by_link(&link, state.other_bounds(link.other))
    } else {
        None
    }
}

/// A link that says of a pair where it is, less a base.
fn link_at(held: WordPair, sums: Sums) -> Link {
    Link {
        other: Other::Nothing,
        factor: 1,
        base: Some(held),
        sum: sums.first,
        width: sums.width,
    }
}

/// Whether a pair's link in one of two states has this base.
fn is_based(
    pair: WordPair,
    held: WordPair,
    before: KnownRelations<'_>,
    behind: KnownRelations<'_>,
) -> bool {
    [before, behind].iter().any(|state| base_in(pair, *state).is_some_and(|base| are_same_pairs(
        base, held,
    )))
}

/// Where a pair is in two states, less a base of which one of them has a link.
pub fn places_from(
    held: WordPair,
    pair: WordPair,
    before: KnownRelations<'_>,
    behind: KnownRelations<'_>,
) -> Option<(Sums, Sums)> {
    if !is_based(pair, held, before, behind) {
        return None;
    }
    let base = Some(held);
    Some((
        place_from(base, pair, before)?,
        place_from(base, pair, behind)?,
    ))
}

/// Whether a pair's link in one of two states has a base.
pub fn is_based_in_one(
    pair: WordPair,
    before: KnownRelations<'_>,
    behind: KnownRelations<'_>,
) -> bool {
    base_in(pair, before).is_some() || base_in(pair, behind).is_some()
}

/// The link without other of a pair that is at the same place in both states, less a base.
pub fn unmoved(
    pair: WordPair,
    before: KnownRelations<'_>,
    behind: KnownRelations<'_>,
) -> Option<Link> {
    for held in WORD_PAIRS {
        if let Some((x, y)) = places_from(held, pair, before, behind)
            && x == y
        {
            return Some(link_at(held, x));
        }
    }
    None
}

/// The next step that is at least as wide.
fn step_of(width: u16) -> Option<u16> {
    BASE_WIDTHS.iter().copied().find(|step| width <= *step)
}

/// Sums that hold others beside their own: where there were several already, they go on to the next step, so that they grow a few times
/// only. None where these are too wide.
pub fn grown_sums(here: Sums, there: Sums) -> Option<Sums> {
    let both = hull_of(here, there)?;
    if both == here || here.width == 0 {
        return if both.width <= LINK_WIDTH {
            Some(both)
        } else {
            None
        };
    }
    let width = step_of(both.width)?;
    let more = width.saturating_sub(both.width);
    let first = if both.first == here.first {
        both.first
    } else {
        both.first.wrapping_sub(more)
    };
    Some(Sums { first, width })
}

/// The link without other of a pair that is at several places in two states, less a base.
fn spread(pair: WordPair, before: KnownRelations<'_>, behind: KnownRelations<'_>) -> Option<Link> {
    for held in WORD_PAIRS {
        if let Some((x, y)) = places_from(held, pair, before, behind)
            && let Some(sums) = grown_sums(x, y)
        {
            return Some(link_at(held, sums));
        }
    }
    None
}

/// What is known of pairs in both states, with links that have a base, and no other, where none is known.
pub fn with_bases(pairs: &Pairs, before: KnownRelations<'_>, behind: KnownRelations<'_>) -> Pairs {
    let mut linked = *pairs;
    for pair in WORD_PAIRS {
        let facts = facts_of(pair, pairs);
        if facts.link.is_none() && is_based_in_one(pair, before, behind) {
            let link = spread(pair, before, behind);
            set_facts(pair, PairFacts { link, ..facts }, &mut linked);
        }
    }
    linked
}

// ---- offering

/// The pair that an instruction moves as a word, if it does.
fn moved_by(op: Op) -> Option<WordPair> {
    match op {
        Op::StoreA(Indirect::HlIncrement | Indirect::HlDecrement)
        | Op::LoadA(Indirect::HlIncrement | Indirect::HlDecrement)
        | Op::IncrementPair(Pair::Hl)
        | Op::DecrementPair(Pair::Hl)
        | Op::AddHl(_)
        | Op::Increment(Operand::Register(Register::L))
        | Op::Decrement(Operand::Register(Register::L)) => Some(WordPair::Hl),
        Op::IncrementPair(Pair::De)
        | Op::DecrementPair(Pair::De)
        | Op::Increment(Operand::Register(Register::E))
        | Op::Decrement(Operand::Register(Register::E)) => Some(WordPair::De),
        Op::IncrementPair(Pair::Bc) => Some(WordPair::Bc),
        _ => None,
    }
}

/// A pair's link before an instruction: with a base where its bytes are those that one held at entry, and are about to be no more;
/// none of a base that they tell of themselves; and without an other that has one value alone, which may be lost.
fn link_before(is_moved: bool, pair: WordPair, state: KnownRelations<'_>) -> Option<Link> {
    let link = state.link(pair);
    if let Some(held) = held_by(pair, state.registers) {
        return if is_moved {
            Some(link_at(held, Sums { first: 0, width: 0 }))
        } else {
            link.filter(|link| !has_base(link, held))
        };
    }
    let link = link?;
    let other = state.other_bounds(link.other);
    match link.base {
        Some(held) if other.first == other.last => {
            Some(link_at(held, place_by_link(&link, other)?))
        }
        _ => Some(link),
    }
}

/// Whether a state could have other links before some instruction.
pub fn may_be_offered(state: &Abs) -> bool {
    let registers = &state.core().registers;
    has_bases(state)
        || WORD_PAIRS
            .iter()
            .any(|pair| held_by(*pair, registers).is_some())
}

/// A state of a procedure but main gets links with a base as its next instruction asks for them.
pub fn offer_bases(program: &Program<'_>, op: Option<Op>, state: &mut Abs) {
    let moved = match op {
        Some(op) => moved_by(op),
        None => None,
    };
    let mut pairs = state.relations().pairs;
    let known = known_of(program, state);
    for pair in WORD_PAIRS {
        let is_moved = moved.is_some_and(|moved| are_same_pairs(moved, pair));
        let facts = facts_of(pair, &pairs);
        let link = link_before(is_moved, pair, known);
        set_facts(pair, PairFacts { link, ..facts }, &mut pairs);
    }
    let relations = Relations {
        pairs,
        ..*state.relations()
    };
    state.set_relations(relations);
}

/// Within which bounds the pairs of a state lie.
pub fn pair_bounds(state: &Abs) -> PairBounds {
    let (registers, pairs) = (&state.core().registers, &state.relations().pairs);
    PairBounds {
        bc: bounds_of(WordPair::Bc, registers, pairs),
        de: bounds_of(WordPair::De, registers, pairs),
        hl: bounds_of(WordPair::Hl, registers, pairs),
    }
}
