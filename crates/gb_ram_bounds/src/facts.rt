//! Facts: what a certificate says of bytes of RAM for the whole program.

ghost use Rattle.std.specs.Prelude.{◌≡◌, true};
ghost use Rattle.gb_ram_bounds.specs.Facts as Facts;
ghost use Rattle.gb_ram_bounds.specs.Meaning.{IsSoundByFacts, IsSoundLevel, AreKept};

use crate::addresses::{AddressSet, is_in, is_one};
use crate::cells::has_cell;
use gb_domain::StridedInterval;
use gb_domain::interval::{cut, lies_in};
use gb_domain::low_bits::are_congruent;
use gb_domain::summary::Fact;
use gb_domain::types::Cell;
use gb_domain::values::interval_of;

/// Whether a fact is about an address.
#[tactic(auto, unfolding(crate::specs::Facts::has_address))]
pub fn has_address(fact: &Fact, address: u16) -> bool
    ensures { result ≡ Facts.has_address fact.now address }
{
    address <= fact.last
        && fact.first <= address
        && 0 < fact.step
        && (address - fact.first) % u16::from(fact.step) == 0
}

/// The values that both have; where they have none in common, those of the first one.
#[tactic(auto, unfolding(crate::specs::Facts::cut_or_same))]
pub(crate) fn cut_or_same(value: StridedInterval, other: StridedInterval) -> StridedInterval
    ensures { result ≡ Facts.cut_or_same value other }
{
    match cut(value, other) {
        Some(left) => left,
        None => value,
    }
}

#[tactic(auto, unfolding(crate::specs::Facts::cut_by_fact))]
fn cut_by_fact(fact: &Fact, address: u16, value: StridedInterval) -> StridedInterval
    ensures { result ≡ Facts.cut_by_fact fact.now address value }
{
    if has_address(fact, address) {
        cut_or_same(value, fact.value)
    } else {
        value
    }
}

fn cut_in_turn(facts: &[Fact], address: u16, value: StridedInterval) -> StridedInterval
    ensures { result ≡ Facts.cut_by_facts facts.now address value }
{
    let mut value = value;
    for fact in facts {
        value = cut_by_fact(fact, address, value);
    }
    value
}

/// What is known of a byte without a cell by facts that hold: the value, cut in turn to each that has the address. A cut that
/// leaves nothing is left out.
#[tactic(auto, using(crate::proofs::FactLaws::cut_by_facts_sound))]
pub fn cut_by_facts(facts: &[Fact], address: u16, value: StridedInterval) -> StridedInterval
    ensures exact { result ≡ Facts.cut_by_facts facts.now address value }
    ensures sound { IsSoundByFacts facts.now address value result }
{
    cut_in_turn(facts, address, value)
}

#[tactic(auto, unfolding(crate::specs::Facts::is_met_at))]
fn is_met_at(fact: &Fact, stored: AddressSet, address: u16) -> bool
    ensures { result ≡ Facts.is_met_at fact.now stored address }
{
    has_address(fact, address) && is_in(stored, address)
}

/// Whether some address is the fact's and one of these. It is asked address by address.
#[tactic(auto, using(crate::proofs::AddressLaws::some_of_none, crate::proofs::AddressLaws::some_of_found, crate::proofs::AddressLaws::some_of_next), unfolding(crate::specs::Facts::meets))]
fn meets(fact: &Fact, stored: AddressSet) -> bool
    ensures { result ≡ Facts.meets fact.now stored }
{
    for address in fact.first.max(stored.first)..=fact.last.min(stored.last) {
        if is_met_at(fact, stored, address) {
            return true;
        }
    }
    false
}

/// Whether all of a fact's addresses have low bits in common, and these have others.
#[tactic(auto, unfolding(crate::specs::Facts::is_apart))]
fn is_apart(fact: &Fact, stored: AddressSet) -> bool
    ensures { result ≡ Facts.is_apart fact.now stored }
{
    are_congruent(stored.low.count, fact.step.into(), 0)
        && !are_congruent(stored.low.count, fact.first, stored.low.bits.into())
}

/// Whether some address is both, as `meets` says. A store to another field of some struct of an array meets none of the fact's
/// addresses, so that is asked first: else all of them would be gone through.
#[tactic(auto, using(crate::proofs::FactLaws::meets_apart))]
fn meets_soon(fact: &Fact, stored: AddressSet) -> bool
    ensures { result ≡ Facts.meets fact.now stored }
{
    if is_apart(fact, stored) {
        return false;
    }
    meets(fact, stored)
}

#[tactic(auto, unfolding(crate::specs::Facts::is_broken))]
fn is_broken(stored: AddressSet, value: StridedInterval, fact: &Fact) -> bool
    ensures { result ≡ Facts.is_broken stored value fact.now }
{
    !lies_in(value, fact.value) && meets_soon(fact, stored)
}

fn unbroken(stored: AddressSet, value: StridedInterval, facts: &[Fact]) -> usize
    ensures { result ≡ Facts.unbroken stored value facts.now }
{
    for (number, fact) in facts.iter().enumerate() {
        if is_broken(stored, value, fact) {
            return number;
        }
    }
    facts.len()
}

/// Whether a store is to one address, which has a cell now.
#[tactic(auto, unfolding(crate::specs::Facts::is_to_cell))]
pub(crate) fn is_to_cell(cells: &[Cell], stored: AddressSet) -> bool
    ensures { result ≡ Facts.is_to_cell cells.now stored }
{
    is_one(stored) && has_cell(cells, stored.first)
}

#[tactic(auto, unfolding(crate::specs::Facts::level_after))]
fn level(facts: &[Fact], cells: &[Cell], stored: AddressSet, value: StridedInterval) -> usize
    ensures { result ≡ Facts.level_after facts.now cells.now stored value }
{
    if is_to_cell(cells, stored) {
        facts.len()
    } else {
        unbroken(stored, value, facts)
    }
}

/// How many of the facts still hold after a store of a value to one of the addresses: those before the first that it breaks.
/// The cells are those after it.
#[tactic(auto, using(crate::proofs::FactLaws::level_after_sound))]
pub fn level_after(
    facts: &[Fact],
    cells: &[Cell],
    stored: AddressSet,
    value: StridedInterval,
) -> usize
    ensures exact { result ≡ Facts.level_after facts.now cells.now stored value }
    ensures sound { IsSoundLevel facts.now cells.now stored value result }
{
    level(facts, cells, stored, value)
}

#[tactic(auto, unfolding(crate::specs::Facts::allows))]
fn allows(cell: &Cell, fact: &Fact) -> bool
    ensures { result ≡ Facts.allows cell.now fact.now }
{
    !has_address(fact, cell.address) || lies_in(interval_of(cell.val), fact.value)
}

fn all_allow(facts: &[Fact], cell: &Cell) -> bool
    ensures { result ≡ Facts.all_allow facts.now cell.now }
{
    facts.iter().all(|fact| allows(cell, fact))
}

#[tactic(auto, unfolding(crate::specs::Facts::is_given_back))]
fn is_given_back(facts: &[Fact], kept: &[Cell], cell: &Cell) -> bool
    ensures { result ≡ Facts.is_given_back facts.now kept.now cell.now }
{
    has_cell(kept, cell.address) || all_allow(facts, cell)
}

#[tactic(auto, unfolding(crate::specs::Facts::keeps_facts))]
fn are_given_back(facts: &[Fact], cells: &[Cell], kept: &[Cell]) -> bool
    ensures { result ≡ Facts.keeps_facts facts.now cells.now kept.now }
{
    cells.iter().all(|cell| is_given_back(facts, kept, cell))
}

/// Whether facts that hold still hold where only the other cells are kept: each cell that goes lies in the facts that have its
/// address.
#[tactic(auto, using(crate::proofs::FactLaws::keeps_facts_sound))]
pub fn keeps_facts(facts: &[Fact], cells: &[Cell], kept: &[Cell]) -> bool
    ensures exact { result ≡ Facts.keeps_facts facts.now cells.now kept.now }
    ensures sound { result ≡ true → AreKept facts.now cells.now kept.now }
{
    are_given_back(facts, cells, kept)
}
