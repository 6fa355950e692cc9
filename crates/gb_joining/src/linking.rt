//! Links between a pair and what else registers hold: whether one holds, and which holds in two states of a loop's head.
//! Where a pair steps by a constant as a counter does, the loop's pointer is known by its counter, and needs no node for
//! each of its values.

use crate::bases::{grown_sums, is_based_in_one, place_from, places_from, unmoved, with_bases};
use crate::bounds::{WORD_PAIRS, facts_of, halves_of, set_facts};
use crate::configuration::Edition;
use crate::covering::from_address;
use crate::limits::{FACTOR, LINK_WIDTH};
use crate::register_set::REGISTERS;
use crate::relating::{KnownRelations, are_same_pairs};
use crate::sums::{Sums, hull_of, sums_in};
use gb_verify::gb_ops::op::Register;
use gb_verify::{
    ANY_BOUNDS, Bounds, Cell, Link, Other, PairFacts, Pairs, Relations, States, WordPair,
    covers_relations, is_ram,
};

/// Whether two links read the same.
fn are_same_others(a: Other, b: Other) -> bool {
    match (a, b) {
        (Other::Register(x), Other::Register(y)) => x == y,
        (Other::Pair(x), Other::Pair(y)) => are_same_pairs(x, y),
        (Other::Cell(x), Other::Cell(y)) => x == y,
        (Other::Nothing, Other::Nothing) => true,
        _ => false,
    }
}

/// Whether two links of a pair have the same base, or none.
fn are_same_bases(a: Option<WordPair>, b: Option<WordPair>) -> bool {
    match (a, b) {
        (Some(x), Some(y)) => are_same_pairs(x, y),
        (None, None) => true,
        _ => false,
    }
}

/// Whether two links of a pair speak of the same sum.
fn are_same_terms(a: &Link, b: &Link) -> bool {
    are_same_others(a.other, b.other) && a.factor == b.factor && are_same_bases(a.base, b.base)
}

pub fn are_same_links(a: &Link, b: &Link) -> bool {
    are_same_terms(a, b) && a.sum == b.sum && a.width == b.width
}

/// Whether the checker finds a link of a pair in what is known of a state.
fn is_found(pair: WordPair, link: &Link, state: KnownRelations<'_>) -> bool {
    let mut pairs = Pairs::default();
    let facts = PairFacts {
        bounds: ANY_BOUNDS,
        link: Some(*link),
    };
    set_facts(pair, facts, &mut pairs);
    let wanted = Relations {
        pairs,
        ..Relations::default()
    };
    covers_relations(state.program, &States::of(state.state), &wanted)
}

/// Whether a link holds in a state: by versions 1 to 3 where the pair and what it reads are known, and meet it.
pub fn holds_link(
    edition: Edition,
    pair: WordPair,
    link: &Link,
    state: KnownRelations<'_>,
) -> bool {
    if edition.is_fourth() {
        return is_found(pair, link, state);
    }
    let (word, other) = (state.bounds(pair), state.other_bounds(link.other));
    word.first == word.last
        && other.first == other.last
        && word
            .first
            .wrapping_add(link.factor.wrapping_mul(other.first))
            == link.sum
}

/// The factor by which the pair's step is the other's, turned round.
fn factor_of(pair_step: u16, other_step: u16) -> Option<u16> {
    let factor = match other_step {
        0xFFFF => pair_step,
        1 => pair_step.wrapping_neg(),
        _ => return None,
    };
    let is_small = factor <= FACTOR || factor >= FACTOR.wrapping_neg();
    if factor != 0 && is_small {
        Some(factor)
    } else {
        None
    }
}

/// A pair in two states of a loop's head, less a base, if links with one are sought.
#[derive(Clone, Copy)]
struct Round<'a> {
    edition: Edition,
    pair: WordPair,
    base: Option<WordPair>,
    before: KnownRelations<'a>,
    behind: KnownRelations<'a>,
}

/// How far what is read moved, where it had one value.
fn stepped_by(before: Bounds, behind: Bounds) -> Option<u16> {
    if before.first == before.last && behind.first == behind.last {
        Some(behind.first.wrapping_sub(before.first))
    } else {
        None
    }
}

/// How far a pair moved: by the rules of version 4 it may lie anywhere in an interval that stays as long.
fn pair_moved_by(round: Round<'_>) -> Option<u16> {
    let before = place_from(round.base, round.pair, round.before)?;
    let behind = place_from(round.base, round.pair, round.behind)?;
    let is_alike = before.width == behind.width;
    if is_alike && (before.width == 0 || round.edition.is_fourth()) {
        Some(behind.first.wrapping_sub(before.first))
    } else {
        None
    }
}

/// A link of a pair that holds in both states, where the pair steps by a constant as the other by one.
fn link_by(round: Round<'_>, other: Other) -> Option<Link> {
    let before = round.before.other_bounds(other);
    let factor = factor_of(
        pair_moved_by(round)?,
        stepped_by(before, round.behind.other_bounds(other))?,
    )?;
    let place = place_from(round.base, round.pair, round.before)?;
    let Sums { first, width } = sums_in(place, factor, before)?;
    if width > LINK_WIDTH {
        return None;
    }
    Some(Link {
        other,
        factor,
        base: round.base,
        sum: first,
        width,
    })
}

/// Whether what a link reads gets smaller from one state to the other.
fn is_counted_down(other: Other, round: Round<'_>) -> bool {
    round.behind.other_bounds(other).first < round.before.other_bounds(other).first
}

/// Whether a register is one of a pair's.
pub(crate) fn is_half(register: Register, pair: WordPair) -> bool {
    let (high, low) = halves_of(pair);
    register == high || register == low
}

/// Whether a pair has a link that reads another one: both would be known by one another, and by nothing else.
fn reads(pair: WordPair, read: WordPair, pairs: &Pairs) -> bool {
    match facts_of(pair, pairs).link {
        Some(link) => matches!(link.other, Other::Pair(other) if are_same_pairs(other, read)),
        None => false,
    }
}

/// A link of a pair with another pair that isn't linked with it.
fn link_to_pair(round: Round<'_>, linked: &Pairs, is_down: bool) -> Option<Link> {
    for other in WORD_PAIRS {
        if !are_same_pairs(other, round.pair)
            && !reads(other, round.pair, linked)
            && is_counted_down(Other::Pair(other), round) == is_down
            && let Some(link) = link_by(round, Other::Pair(other))
        {
            return Some(link);
        }
    }
    None
}

/// A link of a pair with a register that isn't one of its own.
fn link_to_register(round: Round<'_>, is_down: bool) -> Option<Link> {
    for register in REGISTERS {
        let other = Other::Register(register);
        if !is_half(register, round.pair)
            && is_counted_down(other, round) == is_down
            && let Some(link) = link_by(round, other)
        {
            return Some(link);
        }
    }
    None
}

/// Whether a cell has one value, and may have another one by others, from its address on: where they have no cell, facts may know it.
fn may_differ(cell: &Cell, rest: &[Cell]) -> bool {
    let is_one = cell.val.lo == cell.val.hi;
    match rest {
        [other, ..] if other.address == cell.address => {
            is_one && other.val.lo == other.val.hi && other.val.lo != cell.val.lo
        }
        _ => is_one,
    }
}

/// A link of a pair with a byte of RAM at one of some cells' addresses. The cells of the other state are in order of address too.
fn link_among(round: Round<'_>, is_down: bool, cells: &[Cell], others: &[Cell]) -> Option<Link> {
    let mut rest = others;
    for cell in cells {
        rest = from_address(cell.address, rest);
        let other = Other::Cell(cell.address);
        if may_differ(cell, rest)
            && is_ram(cell.address)
            && is_counted_down(other, round) == is_down
            && let Some(link) = link_by(round, other)
        {
            return Some(link);
        }
    }
    None
}

/// A link of a pair with a byte of RAM, by the rules of version 4. Where facts say of the byte what one state knows, only the other has
/// a cell.
fn link_to_cell(round: Round<'_>, is_down: bool) -> Option<Link> {
    if !round.edition.is_fourth() {
        return None;
    }
    let (before, behind) = (round.before.state.cells(), round.behind.state.cells());
    link_among(round, is_down, behind, before).or_else(|| link_among(
        round, is_down, before, behind,
    ))
}

/// A link of a pair that holds in both states: with what is counted down first, and with another pair before its bytes,
/// since a byte goes round where its pair goes on: a copy may end by either pointer, and the other one is known by it.
fn inferred(round: Round<'_>, linked: &Pairs) -> Option<Link> {
    if !pair_moved_by(round).is_some_and(|step| step != 0) {
        return None;
    }
    link_to_pair(round, linked, true)
        .or(link_to_register(round, true))
        .or_else(|| link_to_cell(round, true))
        .or(link_to_pair(round, linked, false))
        .or(link_to_register(round, false))
        .or_else(|| link_to_cell(round, false))
}

/// A link of a pair that holds in both states, with a base of which one of them has a link.
fn inferred_from_bases(round: Round<'_>, linked: &Pairs) -> Option<Link> {
    if !is_based_in_one(round.pair, round.before, round.behind) {
        return None;
    }
    if let Some(link) = unmoved(round.pair, round.before, round.behind) {
        return Some(link);
    }
    for held in WORD_PAIRS {
        let from = Round {
            base: Some(held),
            ..round
        };
        if places_from(held, round.pair, round.before, round.behind).is_some()
            && let Some(link) = inferred(from, linked)
        {
            return Some(link);
        }
    }
    None
}

/// Sums that hold those of both states. Where the second one has the same link with other sums, the way there changed them: then no
/// link is left that has no base.
fn sums_of_both(link: &Link, there: Sums, is_changed: bool) -> Option<Sums> {
    let here = Sums {
        first: link.sum,
        width: link.width,
    };
    if link.base.is_some() {
        return grown_sums(here, there);
    }
    if is_changed {
        None
    } else {
        hull_of(here, there)
    }
}

/// The link of the first state with the sums of both, by the rules of version 4.
fn widened(
    edition: Edition,
    pair: WordPair,
    before: KnownRelations<'_>,
    behind: KnownRelations<'_>,
) -> Option<Link> {
    if !edition.is_fourth() {
        return None;
    }
    let link = before.link(pair)?;
    let is_changed = behind
        .link(pair)
        .is_some_and(|other| are_same_terms(&other, &link));
    let there = sums_in(
        place_from(link.base, pair, behind)?,
        link.factor,
        behind.other_bounds(link.other),
    )?;
    let Sums { first, width } = sums_of_both(&link, there, is_changed)?;
    if width > LINK_WIDTH {
        return None;
    }
    Some(Link {
        sum: first,
        width,
        ..link
    })
}

/// What is known of pairs in both states, with links of the first one whose sums hold those of both, where none is known.
pub fn with_wider_links(
    edition: Edition,
    pairs: &Pairs,
    before: KnownRelations<'_>,
    behind: KnownRelations<'_>,
) -> Pairs {
    let mut linked = *pairs;
    for pair in WORD_PAIRS {
        let facts = facts_of(pair, pairs);
        if facts.link.is_none() {
            let link = widened(edition, pair, before, behind);
            set_facts(pair, PairFacts { link, ..facts }, &mut linked);
        }
    }
    with_bases(&linked, before, behind)
}

/// What is known of pairs in both states, with links that hold in both where none is known yet.
pub fn with_links(
    edition: Edition,
    pairs: &Pairs,
    before: KnownRelations<'_>,
    behind: KnownRelations<'_>,
) -> Pairs {
    let mut linked = *pairs;
    for pair in WORD_PAIRS {
        let facts = facts_of(pair, pairs);
        let round = Round {
            edition,
            pair,
            base: None,
            before,
            behind,
        };
        if facts.link.is_none() {
            let link = inferred_from_bases(round, &linked)
                .or_else(|| inferred(round, &linked))
                .or_else(|| widened(edition, pair, before, behind));
            set_facts(pair, PairFacts { link, ..facts }, &mut linked);
        }
    }
    with_bases(&linked, before, behind)
}
