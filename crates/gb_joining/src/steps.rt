//! Widening: bounds that grew go on to the next of some steps, so that they grow a few times only.

use crate::bases::with_bases;
use crate::basis::Basis;
use crate::bounds::{WORD_PAIRS, facts_of, set_facts};
use crate::covering::{are_cells_known, are_items_known};
use crate::joining::{
    join, join_all_relations, join_cells, join_core, join_items, known_of, val_of,
};
use crate::linking::{with_links, with_wider_links};
use crate::relating::without_boxes;
use crate::shadowing::join_summaries;
use arrayvec::ArrayVec;
use gb_verify::gb_domain::interval::{low_bits_of, with_low_bits};
use gb_verify::gb_domain::pairs::ANY_PAIRS;
use gb_verify::gb_domain::values::interval_of;
use gb_verify::gb_ops::registers::Registers;
use gb_verify::{
    Abs, Bounds, Cell, Core, PairFacts, Pairs, Program, Relations, Rules, States, Val, any,
    cell_at, covers, read_in, reduced,
};
use std::collections::BTreeSet;

/// The values at which growing bounds stop: 0, 255 and some more.
#[derive(Clone, Copy, PartialEq, Eq)]
pub struct Steps {
    /// The greatest step that is at most a value.
    below: [u8; 256],
    /// The least step that is at least a value.
    above: [u8; 256],
    /// The steps of a pair's high byte, for which the areas' ends are steps too.
    high_below: [u8; 256],
    high_above: [u8; 256],
}

/// The high bytes of the first addresses of areas: ROM's second half, video RAM with its parts, cartridge RAM, work RAM and
/// its second half, the echo, objects and registers.
const AREAS: [u8; 11] = [
    0x40, 0x80, 0x88, 0x90, 0x98, 0x9C, 0xA0, 0xC0, 0xD0, 0xE0, 0xFE,
];

/// How a state becomes one above another one.
#[derive(Clone, Copy, PartialEq, Eq)]
pub enum Growth {
    /// Both are joined.
    Joined,
    /// Bounds grow to hold both, and links that hold in both are looked for.
    Linked,
    /// Bounds that grow go on to the next step.
    Widened,
    /// Bounds that grow go on to the next step, and of pairs nothing is known but their bytes.
    WidenedWithoutPairs,
}

/// Whether each byte is a point.
fn marks(points: &BTreeSet<u8>) -> [bool; 256] {
    let mut marks = [false; 256];
    for point in points {
        marks[usize::from(*point)] = true;
    }
    marks
}

/// The marks with those of the areas' ends: the last page of one, and the first page of the next.
fn with_areas(marks: &[bool; 256]) -> [bool; 256] {
    let mut marks = *marks;
    for first in AREAS {
        marks[usize::from(first)] = true;
        marks[usize::from(first.saturating_sub(1))] = true;
    }
    marks
}

/// For each byte the last one that is marked, up to it, or 0.
fn last_marked(marks: &[bool; 256]) -> [u8; 256] {
    let mut below = [0; 256];
    let mut last = 0;
    for value in 0..=u8::MAX {
        if marks[usize::from(value)] {
            last = value;
        }
        below[usize::from(value)] = last;
    }
    below
}

/// For each byte the first one that is marked, from it on, or 255.
fn next_marked(marks: &[bool; 256]) -> [u8; 256] {
    let mut above = [255; 256];
    let mut next = 255;
    for distance in 0..=u8::MAX {
        let value = 255 - distance;
        if marks[usize::from(value)] {
            next = value;
        }
        above[usize::from(value)] = next;
    }
    above
}

/// A value with wider bounds, of which as much is known of low bits.
pub fn with_known_bits(lo: u8, hi: u8, val: Val) -> Val {
    let wide = Val {
        lo,
        hi,
        low_bits: 0,
        origin: val.origin,
    };
    if val.low_bits == 0 {
        return wide;
    }
    match with_low_bits(lo, hi, low_bits_of(interval_of(val))) {
        Some(interval) => val_of(interval, val.origin),
        None => wide,
    }
}

impl Steps {
    pub fn new(points: &BTreeSet<u8>) -> Steps {
        let marks = marks(points);
        let high_marks = with_areas(&marks);
        Steps {
            below: last_marked(&marks),
            above: next_marked(&marks),
            high_below: last_marked(&high_marks),
            high_above: next_marked(&high_marks),
        }
    }

    /// The least step that is at least a value.
    pub fn step_above(&self, value: u8) -> u8 {
        self.above[usize::from(value)]
    }

    fn widen_val(&self, old: Val, new: Val) -> Val {
        let lo = if new.lo < old.lo {
            self.below[usize::from(new.lo)]
        } else {
            new.lo
        };
        let hi = if new.hi > old.hi {
            self.above[usize::from(new.hi)]
        } else {
            new.hi
        };
        with_known_bits(lo, hi, new)
    }

    fn widen_registers(&self, old: &Registers<Val>, new: &Registers<Val>) -> Registers<Val> {
        Registers {
            a: self.widen_val(old.a, new.a),
            b: self.widen_val(old.b, new.b),
            c: self.widen_val(old.c, new.c),
            d: self.widen_val(old.d, new.d),
            e: self.widen_val(old.e, new.e),
            h: self.widen_val(old.h, new.h),
            l: self.widen_val(old.l, new.l),
        }
    }

    fn widen_core(&self, old: &Core, new: &Core) -> Core {
        Core {
            ie: self.widen_val(old.ie, new.ie),
            registers: self.widen_registers(&old.registers, &new.registers),
            ..*new
        }
    }

    fn widen_items(&self, old: &[Val], new: &[Val]) -> ArrayVec<Val, 255> {
        let mut items = ArrayVec::new();
        for (before, after) in old.iter().zip(new) {
            let _ = items.try_push(self.widen_val(*before, *after));
        }
        items
    }

    fn widen_cells(&self, old: &[Cell], new: &[Cell]) -> ArrayVec<Cell, 64> {
        let mut cells = ArrayVec::new();
        for after in new {
            let before = cell_at(after.address, old);
            let val = self.widen_val(before, after.val);
            if val != any() {
                let _ = cells.try_push(Cell {
                    address: after.address,
                    val,
                });
            }
        }
        cells
    }

    /// The greatest first address of a page that is at most a word; but 1 stays, since 0 is what a pair ends at that is
    /// counted down.
    fn page_below(&self, word: u16) -> u16 {
        let [high, _] = word.to_be_bytes();
        let first = u16::from_be_bytes([self.high_below[usize::from(high)], 0]);
        if first == 0 && word > 0 { 1 } else { first }
    }

    /// The least last address of a page that is at least a word.
    fn page_above(&self, word: u16) -> u16 {
        let [high, _] = word.to_be_bytes();
        u16::from_be_bytes([self.high_above[usize::from(high)], 255])
    }

    fn widen_bounds(&self, old: Bounds, new: Bounds) -> Bounds {
        Bounds {
            first: if new.first < old.first {
                self.page_below(new.first)
            } else {
                new.first
            },
            last: if new.last > old.last {
                self.page_above(new.last)
            } else {
                new.last
            },
        }
    }

    /// Bounds of pairs that grew go on to the next page that is a step.
    fn widen_pairs(&self, basis: &Basis<'_>, old: &Abs, added: &Abs, new: &Abs) -> Pairs {
        let before = known_of(&basis.program, old);
        let behind = known_of(&basis.program, added);
        let mut pairs = with_wider_links(basis.edition, &new.relations().pairs, before, behind);
        for pair in WORD_PAIRS {
            let facts = facts_of(pair, &pairs);
            let bounds = self.widen_bounds(before.bounds(pair), facts.bounds);
            set_facts(pair, PairFacts { bounds, ..facts }, &mut pairs);
        }
        pairs
    }

    /// A state above a state and its successor: their join, of which the bounds that grew go on to the next step.
    fn widen(&self, basis: &Basis<'_>, old: &Abs, added: &Abs) -> Abs {
        let rules = basis.rules();
        let new = join(basis, old, added);
        let relations = match rules {
            Rules::Simple => *new.relations(),
            Rules::Extended => Relations {
                pairs: self.widen_pairs(basis, old, added, &new),
                ..*new.relations()
            },
        };
        let widened = Abs::of_all_parts(
            self.widen_core(old.core(), new.core()),
            self.widen_items(old.items(), new.items()),
            self.widen_cells(old.cells(), new.cells()),
            relations,
            new.summary().copied(),
        );
        match rules {
            Rules::Simple => widened,
            Rules::Extended => cut(&basis.program, widened, &new),
        }
    }

    /// A state above a state and another one.
    pub fn grown(&self, basis: &Basis<'_>, growth: Growth, old: &Abs, added: &Abs) -> Abs {
        let mut grown = self.above(basis, growth, old, added);
        let relations = without_boxes(&grown.core().registers, grown.relations());
        grown.set_relations(relations);
        grown
    }

    fn above(&self, basis: &Basis<'_>, growth: Growth, old: &Abs, added: &Abs) -> Abs {
        match growth {
            Growth::Joined => joined(basis, old, added),
            Growth::Linked => {
                let mut joined = old.copied();
                link_in(basis, &mut joined, added);
                joined
            }
            Growth::Widened => self.widen(basis, old, added),
            Growth::WidenedWithoutPairs => without_pairs(self.widen(basis, old, added)),
        }
    }
}

/// A widened state, reduced, where that still covers what it was widened from.
fn cut(program: &Program<'_>, widened: Abs, new: &Abs) -> Abs {
    let relations = widened.relations();
    let read = read_in(program, &States::of(&widened), &relations.pairs);
    let product = reduced(
        Rules::Extended,
        &ANY_PAIRS,
        &read,
        widened.core(),
        relations,
    );
    let Some(product) = product else {
        return widened;
    };
    let mut less = widened.with_core(product.core);
    less.set_relations(product.relations);
    if covers(program, new, &less) {
        less
    } else {
        widened
    }
}

/// The join of two states, with links that have a base.
fn joined(basis: &Basis<'_>, old: &Abs, added: &Abs) -> Abs {
    let mut joined = join(basis, old, added);
    let (before, behind) = (
        known_of(&basis.program, old),
        known_of(&basis.program, added),
    );
    let relations = Relations {
        pairs: with_bases(&joined.relations().pairs, before, behind),
        ..*joined.relations()
    };
    joined.set_relations(relations);
    joined
}

/// The state, in which nothing more is known of pairs than their bytes.
fn without_pairs(mut state: Abs) -> Abs {
    let relations = Relations {
        pairs: Pairs::default(),
        ..*state.relations()
    };
    state.set_relations(relations);
    state
}

/// What is known of several parts together in both states, with links that hold in both.
fn linked_relations(basis: &Basis<'_>, old: &Abs, added: &Abs) -> Relations {
    let joined = join_all_relations(basis, old, added);
    let (before, behind) = (
        known_of(&basis.program, old),
        known_of(&basis.program, added),
    );
    match basis.rules() {
        Rules::Simple => joined,
        Rules::Extended => Relations {
            pairs: with_links(basis.edition, &joined.pairs, before, behind),
            ..joined
        },
    }
}

/// A state becomes its join with another one, with links that hold in both. Bytes and cells that stay are not written again.
pub fn link_in(basis: &Basis<'_>, state: &mut Abs, added: &Abs) {
    let edition = basis.edition;
    let core = join_core(basis, state.core(), added.core());
    let relations = linked_relations(basis, state, added);
    if edition.is_fourth() {
        let summary = join_summaries(basis, state, added);
        state.set_summary(summary);
    }
    if !are_items_known(state.items(), added.items()) {
        let items = join_items(edition, state.items(), added.items());
        state.set_items(items);
    }
    if !are_cells_known(state.cells(), added.cells()) {
        let cells = join_cells(edition, state.cells(), added.cells());
        state.set_cells(cells);
    }
    state.set_core(core);
    state.set_relations(without_boxes(&core.registers, &relations));
}
