//! What a state claims: so many of the facts that are given, from the first one on, and fills.

use crate::bounds::bounds_of;
use arrayvec::ArrayVec;
use gb_verify::gb_domain::summary::{Fact, Fill, Summary};
use gb_verify::gb_ram_bounds::Pointers;
use gb_verify::gb_ram_bounds::covering::gives_facts;
use gb_verify::{Abs, Bounds, Cell, WordPair};

/// The bounds of a state's pointers.
pub fn pointers_of(state: &Abs) -> Pointers<Bounds> {
    let registers = &state.core().registers;
    let pairs = &state.relations().pairs;
    let c = registers.c;
    Pointers {
        bc: bounds_of(WordPair::Bc, registers, pairs),
        de: bounds_of(WordPair::De, registers, pairs),
        hl: bounds_of(WordPair::Hl, registers, pairs),
        high_c: Bounds {
            first: u16::from_be_bytes([0xFF, c.lo]),
            last: u16::from_be_bytes([0xFF, c.hi]),
        },
    }
}

/// So many facts, from the first one on.
pub fn first_of(facts: &[Fact], count: u16) -> &[Fact] {
    match facts.get(..usize::from(count)) {
        Some(first) => first,
        None => facts,
    }
}

/// The level of a state that says of all facts that it can that they hold.
pub fn raised(facts: &[Fact], state: &Abs) -> u16 {
    let level = state.summary().level();
    let Some(open) = facts.get(usize::from(level)..) else {
        return level;
    };
    let (cells, fills, pointers) = (state.cells(), state.summary().fills(), pointers_of(state));
    let known = first_of(facts, level);
    let mut level = level;
    for fact in open {
        if !gives_facts(known, cells, fills, &pointers, cells, &[*fact]) {
            break;
        }
        level = level.saturating_add(1);
    }
    level
}

/// Whether a fill says of a cell's byte what the cell doesn't.
pub fn is_beyond_fill(fill: &Fill, cell: &Cell) -> bool {
    fill.first <= cell.address
        && cell.address <= fill.last
        && (cell.val.lo < fill.lo || fill.hi < cell.val.hi)
}

/// A state's fills, none where its level says all of them.
pub fn fills_at(state: &Abs, is_full: bool) -> ArrayVec<Fill, 8> {
    let mut fills = ArrayVec::new();
    if !is_full {
        for fill in state.summary().fills() {
            let _ = fills.try_push(*fill);
        }
    }
    fills
}

/// The summary with another level and other fills: those that allow any byte say nothing, and no certificate may have them.
pub fn with_level(summary: &Summary, level: u16, fills: ArrayVec<Fill, 8>) -> Summary {
    let mut telling = ArrayVec::new();
    for fill in &fills {
        if fill.lo != 0 || fill.hi != u8::MAX {
            let _ = telling.try_push(*fill);
        }
    }
    Summary::of_parts(level, telling, summary.shadows(), summary.aside())
}
