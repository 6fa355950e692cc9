//! Facts: bytes of arrays that stay within bounds.

use gb_domain::pairs::{ANY_BOUNDS, Bounds};
use gb_domain::summary::{Fact, Fill};
use gb_domain::types::{Cell, Origin, Range, Val};
use gb_domain::{LowBits, StridedInterval};
use gb_ram_bounds::covering::{byte_at, gives_facts};
use gb_ram_bounds::facts::{has_address, keeps_facts, level_after};
use gb_ram_bounds::returned::returned_level;
use gb_ram_bounds::{AddressSet, Pointers};
use std::process::Abort;

/// The bytes from the first to the second.
type FromTo = (u8, u8);

fn from_to(bytes: FromTo) -> StridedInterval {
    let (lo, hi) = bytes;
    StridedInterval { lo, hi, count: 0 }
}

const ANY_POINTERS: Pointers<Bounds> = Pointers {
    bc: ANY_BOUNDS,
    de: ANY_BOUNDS,
    hl: ANY_BOUNDS,
    high_c: ANY_BOUNDS,
};

/// Four structs of eight bytes: the state is the first byte of each, the timer the second. Then a variable.
const FACTS: &[Fact] = &[
    Fact {
        first: 0xC100,
        last: 0xC118,
        step: 8,
        value: StridedInterval {
            lo: 0,
            hi: 3,
            count: 0,
        },
    },
    Fact {
        first: 0xC101,
        last: 0xC119,
        step: 8,
        value: StridedInterval {
            lo: 0,
            hi: 60,
            count: 0,
        },
    },
    Fact {
        first: 0xC000,
        last: 0xC000,
        step: 1,
        value: StridedInterval {
            lo: 1,
            hi: 5,
            count: 0,
        },
    },
];

/// All of RAM up to the structs was cleared.
const CLEARED: &[Fill] = &[Fill {
    first: 0xC000,
    last: 0xC1FF,
    lo: 0,
    hi: 0,
    end: None,
}];

/// The cell of an address, if there is one, and what it says.
type CellAt = Option<(u16, FromTo)>;

/// It is a copy of A as the routine was entered, which facts don't care about.
fn cell_of(address: u16, bytes: FromTo) -> Cell {
    let (lo, hi) = bytes;
    Cell {
        address,
        val: Val {
            lo,
            hi,
            low_bits: 0,
            origin: Some(Origin::A),
        },
    }
}

/// From the first to the second each address whose low byte has so many low bits, which are these.
type StoredAt = (u16, u16, u8, u8);

fn addresses(stored: StoredAt) -> AddressSet {
    let (first, last, count, bits) = stored;
    AddressSet {
        first,
        last,
        low: LowBits { count, bits },
    }
}

/// The routine writes the structs alone.
const RANGES: &[Range] = &[Range {
    first: 0xC100,
    last: 0xC11F,
}];

#[derive(Clone, Copy)]
enum FactStep {
    /// Whether a fact is about an address.
    IsAbout(usize, u16, bool),
    /// What is known of a byte, with this cell, if so many facts hold.
    Byte(usize, CellAt, u16, FromTo),
    /// How many facts hold after a store; the cell is one after it.
    Store(CellAt, StoredAt, FromTo, usize),
    /// Whether all facts hold without this cell.
    Drop(CellAt, bool),
    /// Whether with this cell the facts from this one on hold too, which didn't.
    Raise(CellAt, usize, bool),
    /// Whether, as RAM was cleared, with this cell the facts up to this one hold, of which none did.
    Clear(CellAt, usize, bool),
    /// How many hold where a routine returns: its exit's cell, so many at the exit, so many in the caller.
    Return(CellAt, usize, usize, usize),
}

use FactStep::{Byte, Clear, Drop, IsAbout, Raise, Return, Store};

fn are_about(number: usize, address: u16) -> Option<bool> {
    Some(has_address(FACTS.get(number)?, address))
}

fn byte(level: usize, cells: &[Cell], address: u16) -> Option<StridedInterval> {
    let facts = FACTS.get(..level)?;
    Some(byte_at(facts, cells, &[], &ANY_POINTERS, address))
}

fn are_given(cells: &[Cell], from: usize) -> Option<bool> {
    let held = FACTS.get(..from)?;
    let wanted = FACTS.get(from..)?;
    Some(gives_facts(held, cells, &[], &ANY_POINTERS, &[], wanted))
}

fn are_cleared(cells: &[Cell], to: usize) -> Option<bool> {
    let wanted = FACTS.get(..to)?;
    Some(gives_facts(&[], cells, CLEARED, &ANY_POINTERS, &[], wanted))
}

/// Whether a step comes out so with these cells.
fn agrees_with(step: &FactStep, cells: &[Cell]) -> bool {
    match *step {
        IsAbout(number, address, result) => are_about(number, address) == Some(result),
        Byte(level, _, address, result) => byte(level, cells, address) == Some(from_to(result)),
        Store(_, stored, value, result) => {
            level_after(FACTS, cells, addresses(stored), from_to(value)) == result
        }
        Drop(_, result) => keeps_facts(FACTS, cells, &[]) == result,
        Raise(_, from, result) => are_given(cells, from) == Some(result),
        Clear(_, to, result) => are_cleared(cells, to) == Some(result),
        Return(_, in_exit, in_caller, result) => {
            returned_level(RANGES, cells, &[], FACTS, in_exit, in_caller) == result
        }
    }
}

fn agrees(step: &FactStep) -> bool {
    let cell = match *step {
        IsAbout(..) => None,
        Byte(_, cell, _, _)
        | Store(cell, _, _, _)
        | Drop(cell, _)
        | Raise(cell, _, _)
        | Clear(cell, _, _)
        | Return(cell, _, _, _) => cell,
    };
    match cell {
        Some((address, bytes)) => agrees_with(step, &[cell_of(address, bytes)]),
        None => agrees_with(step, &[]),
    }
}

const STEPS: &[FactStep] = &[
    IsAbout(0, 0xC110, true),
    IsAbout(0, 0xC111, false),
    IsAbout(1, 0xC111, true),
    IsAbout(0, 0xC120, false),
    Byte(3, None, 0xC108, (0, 3)),
    Byte(3, None, 0xC102, (0, 255)),
    // Without the facts, and with a cell in their place.
    Byte(0, None, 0xC108, (0, 255)),
    Byte(3, Some((0xC108, (4, 4))), 0xC108, (4, 4)),
    // A state of the next struct is stored through a pointer to any of them.
    Store(None, (0xC100, 0xC11F, 3, 0), (1, 2), 3),
    Store(None, (0xC100, 0xC11F, 3, 0), (3, 4), 0),
    // A timer of 61: the states still hold.
    Store(None, (0xC100, 0xC11F, 3, 1), (0, 61), 1),
    // A byte of which no fact says anything, in any of the structs.
    Store(None, (0xC102, 0xC11A, 3, 2), (0, 255), 3),
    // A pointer to any byte of the structs.
    Store(None, (0xC100, 0xC11F, 0, 0), (0, 4), 0),
    // The same value to one address that has a cell now: it is an exception.
    Store(Some((0xC108, (4, 4))), (0xC108, 0xC108, 0, 0), (4, 4), 3),
    // The cell goes before it is back in bounds, and after.
    Drop(Some((0xC108, (0, 4))), false),
    Drop(Some((0xC108, (0, 3))), true),
    // A variable that no fact is about.
    Drop(Some((0xC001, (0, 9))), true),
    // The last fact begins to hold by what its cell says.
    Raise(Some((0xC000, (2, 4))), 2, true),
    Raise(Some((0xC000, (0, 4))), 2, false),
    Raise(None, 2, false),
    // States and timers of 0 are in bounds, the variable isn't.
    Clear(None, 2, true),
    Clear(None, 3, false),
    // A state that has a cell since, out of bounds and within, and a byte of which no fact says anything.
    Clear(Some((0xC108, (4, 4))), 2, false),
    Clear(Some((0xC108, (1, 2))), 2, true),
    Clear(Some((0xC102, (9, 9))), 2, true),
    // The structs are the exit's, the variable is the caller's.
    Return(None, 2, 3, 3),
    Return(None, 1, 3, 1),
    // The exit knows the variable too: by its facts, and by a cell in place of them.
    Return(None, 3, 2, 3),
    Return(Some((0xC000, (7, 7))), 3, 2, 2),
    Return(None, 0, 0, 0),
];

#[test]
fn facts_are_as_worked(rt: HostRuntime) {
    for (i, step) in STEPS.iter().enumerate() {
        assert!(rt; agrees(step), "step {i}");
    }
}
