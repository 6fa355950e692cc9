//! Facts and fills where a routine returns.

ghost use Rattle.std.specs.Prelude.{◌≡◌, true};
ghost use Rattle.gb_ram_bounds.specs.Returned as Returned;

use crate::cells::has_cell;
use crate::facts::has_address;
use crate::fills::fixed_at;
use crate::pointers::Pointers;
use gb_domain::Bounds;
use gb_domain::summary::{Fact, Fill};
use gb_domain::types::{Cell, Range};

/// Whether an address lies in one of the ranges.
#[tactic(auto, unfolding(crate::specs::Returned::is_in_ranges))]
pub fn is_in_ranges(ranges: &[Range], address: u16) -> bool
    ensures { result ≡ Returned.is_in_ranges ranges.now address }
{
    ranges
        .iter()
        .any(|range| range.first <= address && address <= range.last)
}

fn claims(is_inside: bool, in_exit: bool, in_caller: bool, exit_has: bool) -> bool
    ensures { result ≡ Returned.claims is_inside in_exit in_caller exit_has }
{
    if is_inside {
        in_exit
    } else {
        in_caller || in_exit && !exit_has
    }
}

#[tactic(auto, unfolding(crate::specs::Returned::stays_at))]
fn stays_at(
    ranges: &[Range],
    exit: &[Cell],
    cells: &[Cell],
    in_exit: bool,
    in_caller: bool,
    fact: &Fact,
    address: u16,
) -> bool
    ensures { result ≡ Returned.stays_at ranges.now exit.now cells.now in_exit in_caller fact.now address }
{
    !has_address(fact, address)
        || has_cell(cells, address)
        || claims(
            is_in_ranges(ranges, address),
            in_exit,
            in_caller,
            has_cell(exit, address),
        )
}

#[tactic(auto, using(crate::proofs::AddressLaws::each_of_none, crate::proofs::AddressLaws::each_of_failed, crate::proofs::AddressLaws::each_of_next), unfolding(crate::specs::Returned::stays))]
fn stays_by_address(
    ranges: &[Range],
    exit: &[Cell],
    cells: &[Cell],
    in_exit: bool,
    in_caller: bool,
    fact: &Fact,
) -> bool
    ensures { result ≡ Returned.stays ranges.now exit.now cells.now in_exit in_caller fact.now }
{
    if !(in_exit || in_caller) {
        return false;
    }
    for address in fact.first..=fact.last {
        if !stays_at(ranges, exit, cells, in_exit, in_caller, fact, address) {
            return false;
        }
    }
    true
}

/// The same. What both say isn't asked address by address: inside the ranges the exit says it, and outside the caller.
#[tactic(auto, using(crate::proofs::ReturnedLaws::stays_by_both))]
fn stays(
    ranges: &[Range],
    exit: &[Cell],
    cells: &[Cell],
    in_exit: bool,
    in_caller: bool,
    fact: &Fact,
) -> bool
    ensures { result ≡ Returned.stays ranges.now exit.now cells.now in_exit in_caller fact.now }
{
    in_exit && in_caller || stays_by_address(ranges, exit, cells, in_exit, in_caller, fact)
}

fn staying(
    ranges: &[Range],
    exit: &[Cell],
    cells: &[Cell],
    facts: &[Fact],
    in_exit: usize,
    in_caller: usize,
) -> usize
    ensures { result ≡ Returned.staying ranges.now exit.now cells.now facts.now in_exit in_caller }
{
    for (number, fact) in facts.iter().enumerate() {
        let holds_at_exit = 0 < in_exit.saturating_sub(number);
        let holds_in_caller = 0 < in_caller.saturating_sub(number);
        if !stays(ranges, exit, cells, holds_at_exit, holds_in_caller, fact) {
            return number;
        }
    }
    facts.len()
}

/// The same. Where as many facts held at the exit and where it was called, none is asked.
#[tactic(auto, using(crate::proofs::ReturnedLaws::staying_alike))]
fn staying_soon(
    ranges: &[Range],
    exit: &[Cell],
    cells: &[Cell],
    facts: &[Fact],
    in_exit: usize,
    in_caller: usize,
) -> usize
    ensures { result ≡ Returned.staying ranges.now exit.now cells.now facts.now in_exit in_caller }
{
    if in_exit == in_caller {
        in_exit.min(facts.len())
    } else {
        staying(ranges, exit, cells, facts, in_exit, in_caller)
    }
}

/// How many of the facts hold where a routine returns, if so many held at its exit, and so many where it was called: at each of a
/// fact's addresses without a cell it is the exit that says so, or outside the routine's ranges the caller. The cells are those where
/// it returns; the exit's count inside the ranges, the caller's outside.
#[tactic(auto, using(crate::proofs::ReturnedLaws::staying_sound))]
pub fn returned_level(
    ranges: &[Range],
    exit: &[Cell],
    cells: &[Cell],
    facts: &[Fact],
    in_exit: usize,
    in_caller: usize,
) -> usize
    ensures exact { result ≡ Returned.staying ranges.now exit.now cells.now facts.now in_exit in_caller }
    ensures sound { Returned.IsSoundReturnedLevel ranges.now exit.now cells.now facts.now in_exit in_caller result }
{
    staying_soon(ranges, exit, cells, facts, in_exit, in_caller)
}

#[tactic(auto, unfolding(crate::specs::Returned::lies_in_one))]
fn lies_in_one(ranges: &[Range], fill: &Fill) -> bool
    ensures { result ≡ Returned.lies_in_one ranges.now fill.now }
{
    ranges.iter().any(|range| range.first <= fill.first && fill.last <= range.last)
}

#[tactic(auto, unfolding(crate::specs::Returned::misses_all))]
fn misses_all(ranges: &[Range], fill: &Fill) -> bool
    ensures { result ≡ Returned.misses_all ranges.now fill.now }
{
    ranges
        .iter()
        .all(|range| fill.last < range.first || range.last < fill.first)
}

/// Whether a fill of the exit holds where the routine returns: it lies in one of the routine's ranges.
#[tactic(auto, using(crate::proofs::ReturnedLaws::exit_fill_sound))]
pub fn is_exit_fill_left(ranges: &[Range], fill: &Fill) -> bool
    ensures exact { result ≡ Returned.lies_in_one ranges.now fill.now }
    ensures sound { result ≡ true → Returned.IsSoundExitFill ranges.now fill.now }
{
    lies_in_one(ranges, fill)
}

#[tactic(auto, unfolding(crate::specs::Returned::left_of_caller))]
fn left_of_caller(
    ranges: &[Range],
    kept: &Pointers<bool>,
    pointers: &Pointers<Bounds>,
    fill: Fill,
) -> Option<Fill>
    ensures { result ≡ Returned.left_of_caller ranges.now kept.now pointers.now fill }
{
    if !misses_all(ranges, &fill) {
        return None;
    }
    match fill.end {
        Some(end) if !kept.get(end.pointer) => fixed_at(end, pointers, fill),
        _ => Some(fill),
    }
}

/// What is left of a fill of the caller where a routine returns: none where it meets one of the routine's ranges; where its pointer
/// isn't kept, its extent by the pointers' bounds at the call, if that isn't empty.
#[tactic(auto, using(crate::proofs::ReturnedLaws::caller_fill_sound))]
pub fn caller_fill_left(
    ranges: &[Range],
    kept: &Pointers<bool>,
    pointers: &Pointers<Bounds>,
    fill: Fill,
) -> Option<Fill>
    ensures exact { result ≡ Returned.left_of_caller ranges.now kept.now pointers.now fill }
    ensures sound { Returned.IsSoundCallerFill ranges.now kept.now pointers.now fill result }
{
    left_of_caller(ranges, kept, pointers, fill)
}
