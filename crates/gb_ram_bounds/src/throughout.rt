//! What holds throughout a stretch: tests of ends and cells, where a stretch may have thousands of addresses.

ghost use Rattle.std.specs.Prelude.{◌≡◌};
ghost use Rattle.gb_ram_bounds.specs.Throughout as Throughout;

use crate::cells::has_cell;
use crate::covering::ends_as_far;
use gb_domain::StridedInterval;
use gb_domain::interval::{bounds, lies_in};
use gb_domain::low_bits::are_congruent;
use gb_domain::summary::{Fact, Fill};
use gb_domain::types::Cell;
use gb_domain::values::interval_of;

/// Whether a fill says of another one's whole stretch what that one does.
#[tactic(auto, unfolding(crate::specs::Throughout::says_all))]
fn says_all(wanted: &Fill, fill: &Fill) -> bool
    ensures { result ≡ Throughout.says_all wanted.now fill.now }
{
    ends_as_far(fill.end, wanted.end)
        && (fill.first <= wanted.first && wanted.last <= fill.last)
        && wanted.lo <= fill.lo
        && fill.hi <= wanted.hi
}

fn is_said_by_one(fills: &[Fill], fill: &Fill) -> bool
    ensures { result ≡ Throughout.is_said_by_one fills.now fill.now }
{
    fills.iter().any(|said| says_all(fill, said))
}

/// Whether a fill without an end has another one's whole stretch, with no other bytes.
#[tactic(auto, unfolding(crate::specs::Throughout::holds_all))]
fn holds_all(wanted: &Fill, fill: &Fill) -> bool
    ensures { result ≡ Throughout.holds_all wanted.now fill.now }
{
    fill.end.is_none()
        && (fill.first <= wanted.first && wanted.last <= fill.last)
        && wanted.lo <= fill.lo
        && fill.hi <= wanted.hi
}

fn is_held_by_one(fills: &[Fill], fill: &Fill) -> bool
    ensures { result ≡ Throughout.is_held_by_one fills.now fill.now }
{
    fills.iter().any(|held| holds_all(fill, held))
}

fn misses(fill: &Fill, first: u16, last: u16) -> bool
    ensures { result ≡ Throughout.misses fill.now first last }
{
    last < fill.first || fill.last < first
}

#[tactic(auto, unfolding(crate::specs::Throughout::has_byte))]
fn has_byte(value: StridedInterval, byte: u8) -> bool
    ensures { result ≡ Throughout.has_byte value byte }
{
    value.lo <= byte && byte <= value.hi && are_congruent(value.count, byte.into(), value.lo.into())
}

#[tactic(auto, unfolding(crate::specs::Throughout::fact_has_least))]
fn fact_has_least(fill: &Fill, fact: &Fact) -> bool
    ensures { result ≡ Throughout.fact_has_least fill.now fact.now }
{
    misses(fill, fact.first, fact.last) || has_byte(fact.value, fill.lo)
}

fn facts_have_least(facts: &[Fact], fill: &Fill) -> bool
    ensures { result ≡ Throughout.facts_have_least facts.now fill.now }
{
    facts.iter().all(|fact| fact_has_least(fill, fact))
}

#[tactic(auto, unfolding(crate::specs::Throughout::fill_has_least))]
fn fill_has_least(fill: &Fill, other: &Fill) -> bool
    ensures { result ≡ Throughout.fill_has_least fill.now other.now }
{
    misses(fill, other.first, other.last) || other.lo <= fill.lo && fill.lo <= other.hi
}

fn fills_have_least(fills: &[Fill], fill: &Fill) -> bool
    ensures { result ≡ Throughout.fills_have_least fills.now fill.now }
{
    fills.iter().all(|other| fill_has_least(fill, other))
}

/// Whether what facts and fills leave of each byte of a stretch lies in a fill. A cut that leaves nothing is left out, so one byte is
/// followed through all cuts: the fill's least.
#[tactic(auto, unfolding(crate::specs::Throughout::is_held_throughout))]
fn is_held_throughout(facts: &[Fact], fills: &[Fill], fill: &Fill) -> bool
    ensures { result ≡ Throughout.is_held_throughout facts.now fills.now fill.now }
{
    is_held_by_one(fills, fill) && facts_have_least(facts, fill) && fills_have_least(fills, fill)
}

/// Whether a cell leaves a fill as it is said to be, where only the other cells are kept.
#[tactic(auto, unfolding(crate::specs::Throughout::fits))]
fn fits(kept: &[Cell], fill: &Fill, cell: &Cell) -> bool
    ensures { result ≡ Throughout.fits kept.now fill.now cell.now }
{
    !(fill.first <= cell.address && cell.address <= fill.last)
        || has_cell(kept, cell.address)
        || lies_in(interval_of(cell.val), bounds(fill.lo, fill.hi))
}

fn all_fit(cells: &[Cell], kept: &[Cell], fill: &Fill) -> bool
    ensures { result ≡ Throughout.all_fit cells.now kept.now fill.now }
{
    cells.iter().all(|cell| fits(kept, fill, cell))
}

/// Whether one of a state's fills says or holds all that a fill does, and each cell that goes fits in it.
#[tactic(auto, unfolding(crate::specs::Throughout::is_filled_throughout))]
pub(crate) fn is_filled_throughout(
    facts: &[Fact],
    cells: &[Cell],
    fills: &[Fill],
    kept: &[Cell],
    fill: &Fill,
) -> bool
    ensures { result ≡ Throughout.is_filled_throughout facts.now cells.now fills.now kept.now fill.now }
{
    (is_said_by_one(fills, fill) || is_held_throughout(facts, fills, fill))
        && all_fit(cells, kept, fill)
}

fn stretch_of(fact: Fact) -> Fill
    ensures { result ≡ Throughout.stretch_of fact }
{
    Fill {
        first: fact.first,
        last: fact.last,
        lo: fact.value.lo,
        hi: fact.value.hi,
        end: None,
    }
}

/// Whether one of a state's fills holds each byte of a fact's stretch within its bounds, and each cell that goes fits in it.
#[tactic(auto, unfolding(crate::specs::Throughout::is_given_throughout))]
pub(crate) fn is_given_throughout(
    facts: &[Fact],
    cells: &[Cell],
    fills: &[Fill],
    kept: &[Cell],
    fact: Fact,
) -> bool
    ensures { result ≡ Throughout.is_given_throughout facts.now cells.now fills.now kept.now fact }
{
    let stretch = stretch_of(fact);
    fact.value.count == 0
        && is_held_throughout(facts, fills, &stretch)
        && all_fit(cells, kept, &stretch)
}
