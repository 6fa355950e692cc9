//! What a state knows of a byte, and whether it gives what another one says of RAM.

ghost use Rattle.std.specs.Prelude.{◌≡◌, true};
ghost use Rattle.gb_ram_bounds.specs.Covering as Covering;
ghost use Rattle.gb_ram_bounds.specs.Reached as Reached;
ghost use Rattle.gb_ram_bounds.specs.Meaning.{IsSoundByte, GivesFacts, GivesFills};

use crate::cells::{cell_at, has_cell};
use crate::facts::{cut_by_facts, has_address};
use crate::fills::{cut_by_fills, may_reach, reached_stretch};
use crate::pointers::{Pointers, is_same};
use crate::throughout::{is_filled_throughout, is_given_throughout};
use gb_domain::interval::{bounds, lies_in};
use gb_domain::summary::{Fact, Fill, FillEnd, Reach};
use gb_domain::types::Cell;
use gb_domain::{Bounds, StridedInterval};

#[tactic(auto, unfolding(crate::specs::Covering::byte_at))]
fn known_byte(
    facts: &[Fact],
    cells: &[Cell],
    fills: &[Fill],
    pointers: &Pointers<Bounds>,
    address: u16,
) -> StridedInterval
    ensures { result ≡ Covering.byte_at facts.now cells.now fills.now pointers.now address }
{
    match cell_at(cells, address) {
        Some(value) => value,
        None => {
            let by_facts = cut_by_facts(facts, address, bounds(0, 255));
            cut_by_fills(pointers, fills, address, by_facts)
        }
    }
}

/// What is known of the byte at an address: what its cell says; else any byte, cut in turn to each fact that holds and has the
/// address, and to each fill that has it for sure.
#[tactic(auto, using(crate::proofs::CoveringLaws::byte_at_sound))]
pub fn byte_at(
    facts: &[Fact],
    cells: &[Cell],
    fills: &[Fill],
    pointers: &Pointers<Bounds>,
    address: u16,
) -> StridedInterval
    ensures exact { result ≡ Covering.byte_at facts.now cells.now fills.now pointers.now address }
    ensures sound { IsSoundByte facts.now cells.now fills.now pointers.now address result }
{
    known_byte(facts, cells, fills, pointers, address)
}

#[tactic(auto, unfolding(crate::specs::Covering::is_given_at))]
fn is_given_at(
    facts: &[Fact],
    cells: &[Cell],
    fills: &[Fill],
    pointers: &Pointers<Bounds>,
    kept: &[Cell],
    fact: &Fact,
    address: u16,
) -> bool
    ensures { result ≡ Covering.is_given_at facts.now cells.now fills.now pointers.now kept.now fact.now address }
{
    !has_address(fact, address)
        || has_cell(kept, address)
        || lies_in(
            known_byte(facts, cells, fills, pointers, address),
            fact.value,
        )
}

#[tactic(auto, using(crate::proofs::AddressLaws::each_of_none, crate::proofs::AddressLaws::each_of_failed, crate::proofs::AddressLaws::each_of_next), unfolding(crate::specs::Covering::gives_fact))]
fn gives_fact(
    facts: &[Fact],
    cells: &[Cell],
    fills: &[Fill],
    pointers: &Pointers<Bounds>,
    kept: &[Cell],
    fact: &Fact,
) -> bool
    ensures { result ≡ Covering.gives_fact facts.now cells.now fills.now pointers.now kept.now fact.now }
{
    for address in fact.first..=fact.last {
        if !is_given_at(facts, cells, fills, pointers, kept, fact, address) {
            return false;
        }
    }
    true
}

/// Whether a fact holds, as `gives_fact` says. A program that clears its RAM first has a fill of all of it from then on, so that is
/// asked first.
#[tactic(auto, using(crate::proofs::ThroughoutLaws::gives_fact_throughout))]
fn gives_fact_soon(
    facts: &[Fact],
    cells: &[Cell],
    fills: &[Fill],
    pointers: &Pointers<Bounds>,
    kept: &[Cell],
    fact: Fact,
) -> bool
    ensures { result ≡ Covering.gives_fact facts.now cells.now fills.now pointers.now kept.now fact }
{
    if is_given_throughout(facts, cells, fills, kept, fact) {
        return true;
    }
    gives_fact(facts, cells, fills, pointers, kept, &fact)
}

#[tactic(auto, unfolding(crate::specs::Covering::gives_facts))]
fn give_facts(
    facts: &[Fact],
    cells: &[Cell],
    fills: &[Fill],
    pointers: &Pointers<Bounds>,
    kept: &[Cell],
    wanted: &[Fact],
) -> bool
    ensures { result ≡ Covering.gives_facts facts.now cells.now fills.now pointers.now kept.now wanted.now }
{
    wanted.iter().all(|fact| gives_fact_soon(facts, cells, fills, pointers, kept, *fact))
}

/// Whether facts hold that didn't hold yet, where only the other cells are kept: at each of their addresses without such a cell what
/// the state knows of the byte lies in the fact. It is asked address by address,
/// unless one of the state's fills holds all of it.
#[tactic(auto, using(crate::proofs::CoveringLaws::gives_facts_sound))]
pub fn gives_facts(
    facts: &[Fact],
    cells: &[Cell],
    fills: &[Fill],
    pointers: &Pointers<Bounds>,
    kept: &[Cell],
    wanted: &[Fact],
) -> bool
    ensures exact { result ≡ Covering.gives_facts facts.now cells.now fills.now pointers.now kept.now wanted.now }
    ensures sound { result ≡ true → GivesFacts facts.now cells.now fills.now pointers.now kept.now wanted.now }
{
    give_facts(facts, cells, fills, pointers, kept, wanted)
}

fn reaches_as_far(reach: Reach, other: Reach, offset: u16, other_offset: u16) -> bool
    ensures { result ≡ Covering.reaches_as_far reach other offset other_offset }
{
    match (reach, other) {
        (Reach::Below, Reach::Below) => other_offset <= offset,
        (Reach::Above, Reach::Above) => offset <= other_offset,
        _ => false,
    }
}

/// Whether an end that is a pointer reaches all that another one does.
pub(crate) fn ends_as_far(end: Option<FillEnd>, other: Option<FillEnd>) -> bool
    ensures { result ≡ Covering.ends_as_far end other }
{
    match (end, other) {
        (Some(end), Some(other)) => {
            is_same(end.pointer, other.pointer)
                && reaches_as_far(end.reach, other.reach, end.offset, other.offset)
        }
        _ => false,
    }
}

/// Whether a fill says of an address what another one does.
#[tactic(auto, unfolding(crate::specs::Covering::says_at))]
fn says_at(wanted: &Fill, address: u16, fill: &Fill) -> bool
    ensures { result ≡ Covering.says_at wanted.now address fill.now }
{
    ends_as_far(fill.end, wanted.end)
        && (fill.first <= address && address <= fill.last)
        && wanted.lo <= fill.lo
        && fill.hi <= wanted.hi
}

fn is_said_at(wanted: &Fill, address: u16, fills: &[Fill]) -> bool
    ensures { result ≡ Covering.is_said_at wanted.now address fills.now }
{
    fills.iter().any(|fill| says_at(wanted, address, fill))
}

#[tactic(auto, unfolding(crate::specs::Covering::is_filled_at))]
fn is_filled_at(
    facts: &[Fact],
    cells: &[Cell],
    fills: &[Fill],
    pointers: &Pointers<Bounds>,
    kept: &[Cell],
    fill: &Fill,
    address: u16,
) -> bool
    ensures { result ≡ Covering.is_filled_at facts.now cells.now fills.now pointers.now kept.now fill.now address }
{
    !may_reach(fill.end, pointers, address)
        || has_cell(kept, address)
        || !has_cell(cells, address) && is_said_at(fill, address, fills)
        || lies_in(
            known_byte(facts, cells, fills, pointers, address),
            bounds(fill.lo, fill.hi),
        )
}

#[tactic(auto, using(crate::proofs::AddressLaws::each_of_none, crate::proofs::AddressLaws::each_of_failed, crate::proofs::AddressLaws::each_of_next), unfolding(crate::specs::Reached::are_filled))]
fn are_filled(
    facts: &[Fact],
    cells: &[Cell],
    fills: &[Fill],
    pointers: &Pointers<Bounds>,
    kept: &[Cell],
    fill: &Fill,
    stretch: Bounds,
) -> bool
    ensures { result ≡ Reached.are_filled facts.now cells.now fills.now pointers.now kept.now fill.now stretch }
{
    for address in stretch.first..=stretch.last {
        if !is_filled_at(facts, cells, fills, pointers, kept, fill, address) {
            return false;
        }
    }
    true
}

/// Whether a fill holds: only addresses that its pointer may reach are asked, since a stretch may have thousands of others.
#[tactic(auto, using(crate::proofs::ReachedLaws::gives_fill_reached, crate::proofs::ReachedLaws::gives_fill_unreached))]
fn gives_fill(
    facts: &[Fact],
    cells: &[Cell],
    fills: &[Fill],
    pointers: &Pointers<Bounds>,
    kept: &[Cell],
    fill: &Fill,
) -> bool
    ensures { result ≡ Covering.gives_fill facts.now cells.now fills.now pointers.now kept.now fill.now }
{
    match reached_stretch(pointers, fill) {
        Some(stretch) => are_filled(facts, cells, fills, pointers, kept, fill, stretch),
        None => true,
    }
}

/// Whether a fill holds, as `gives_fill` says. A loop that clears comes round with the fill that it had, so the ends are asked first:
/// a stretch may have thousands of addresses.
#[tactic(auto, using(crate::proofs::ThroughoutLaws::gives_fill_throughout))]
fn gives_fill_soon(
    facts: &[Fact],
    cells: &[Cell],
    fills: &[Fill],
    pointers: &Pointers<Bounds>,
    kept: &[Cell],
    fill: Fill,
) -> bool
    ensures { result ≡ Covering.gives_fill facts.now cells.now fills.now pointers.now kept.now fill }
{
    if is_filled_throughout(facts, cells, fills, kept, &fill) {
        return true;
    }
    gives_fill(facts, cells, fills, pointers, kept, &fill)
}

#[tactic(auto, unfolding(crate::specs::Covering::gives_fills))]
fn give_fills(
    facts: &[Fact],
    cells: &[Cell],
    fills: &[Fill],
    pointers: &Pointers<Bounds>,
    kept: &[Cell],
    wanted: &[Fill],
) -> bool
    ensures { result ≡ Covering.gives_fills facts.now cells.now fills.now pointers.now kept.now wanted.now }
{
    wanted.iter().all(|fill| gives_fill_soon(facts, cells, fills, pointers, kept, *fill))
}

/// Whether fills hold where only the other cells are kept: at each of their addresses without such a cell what the state knows of the
/// byte lies in the fill's bounds, or one of its own fills that ends at the same pointer says so. It is asked address by address,
/// unless one of them says or holds all of it.
#[tactic(auto, using(crate::proofs::CoveringLaws::gives_fills_sound))]
pub fn gives_fills(
    facts: &[Fact],
    cells: &[Cell],
    fills: &[Fill],
    pointers: &Pointers<Bounds>,
    kept: &[Cell],
    wanted: &[Fill],
) -> bool
    ensures exact { result ≡ Covering.gives_fills facts.now cells.now fills.now pointers.now kept.now wanted.now }
    ensures sound { result ≡ true → GivesFills facts.now cells.now fills.now pointers.now kept.now wanted.now }
{
    give_fills(facts, cells, fills, pointers, kept, wanted)
}
