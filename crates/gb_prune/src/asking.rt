//! What the ways from a node ask of its state: what they pass on is wanted at once, and what has to come out is kept as aims.

use crate::aims::{Aim, WayAim, is_stored, read_by, untouched};
use crate::parts::{BANK, BOUNDS, Wanted, cell_number};
use gb_draft::{Abs, AbsWrite, Cell, Origin, Range, WORD_PAIRS};
use std::alloc::{AllocError, Global};

/// A way from a node: what it writes, and the states before it and after it.
#[derive(Clone, Copy)]
pub(crate) struct Passage<'s> {
    pub(crate) way: u8,
    pub(crate) write: AbsWrite,
    pub(crate) state: &'s Abs,
    pub(crate) after: &'s Abs,
}

/// What a node's ways ask of it.
#[derive(Drop)]
pub(crate) struct Asking {
    pub(crate) wanted: Wanted,
    pub(crate) aims: Vec<WayAim>,
    /// All of it is wanted: its successors are covered value by value.
    pub(crate) is_whole: bool,
}

impl Asking {
    /// What is asked of a state at an address, whatever comes out: its bank, or its code in RAM. So much is wanted already.
    pub(crate) fn at(alloc: Global, address: u16, state: &Abs, wanted: Wanted) -> Asking {
        let mut wanted = wanted;
        if 0x4000 <= address && address < 0x8000 {
            wanted.parts |= BANK;
        }
        if address >= 0x8000 {
            for offset in 0..3u16 {
                want_at(state.cells(), address.saturating_add(offset), &mut wanted);
            }
        }
        Asking {
            wanted,
            aims: Vec::new(alloc),
            is_whole: false,
        }
    }

    /// Cells and items that are wanted after a way are wanted before it, except for those that it makes.
    pub(crate) fn pass(&mut self, passage: &Passage<'_>, aim: &Abs, wanted: Wanted) {
        let state = passage.state;
        want_passed(state.cells(), aim.cells(), passage.write, &mut self.wanted);
        for number in 0..state.items().len() {
            if wanted.items.has(number) {
                self.wanted.want_item(number);
            }
        }
    }

    /// A state has to stand for what comes out, of which so much is wanted.
    pub(crate) fn cover(
        &mut self,
        passage: &Passage<'_>,
        aim: Abs,
        wanted: Wanted,
    ) -> Result<(), AllocError> {
        self.wanted.parts |= untouched(passage.state, passage.after, wanted);
        self.pass(passage, &aim, wanted);
        self.aims.push(WayAim {
            way: passage.way,
            aim: Aim::Covered(aim),
        })?;
        Ok(())
    }

    /// The entry of a callee that takes so many bytes over has to stand for what enters it.
    pub(crate) fn enter(
        &mut self,
        passage: &Passage<'_>,
        callee: u16,
        count: u8,
        entry: Abs,
        wanted: Wanted,
    ) -> Result<(), AllocError> {
        let state = passage.state;
        self.wanted.parts |= untouched(state, passage.after, wanted) & BOUNDS;
        want_passed(
            state.cells(),
            entry.cells(),
            AbsWrite::Nothing,
            &mut self.wanted,
        );
        let waiting = passage.waiting_below(count);
        for item in 0..usize::from(count) {
            let number = waiting.saturating_add(item);
            if wanted.items.has(item) && number < state.items().len() {
                self.wanted.want_item(number);
            }
        }
        self.aims.push(WayAim {
            way: passage.way,
            aim: Aim::Entered { callee, entry },
        })?;
        Ok(())
    }

    /// The cells and items that are wanted after a procedure with these ranges, which takes so many bytes over, are wanted
    /// of its caller or of its exit.
    pub(crate) fn come_back(
        &mut self,
        passage: &Passage<'_>,
        count: u8,
        ranges: &[Range],
        exit: &Abs,
        back: &Abs,
        wanted: Wanted,
    ) -> Wanted {
        let state = passage.state;
        let mut of_exit = Wanted::nothing();
        for cell in back.cells() {
            let is_written = is_inside(ranges, cell.address);
            if is_written {
                want_at(exit.cells(), cell.address, &mut of_exit);
            }
            if !is_written || is_given_back(exit.cells(), cell.address) {
                want_at(state.cells(), cell.address, &mut self.wanted);
            }
        }
        for pair in WORD_PAIRS {
            if let Some(address) = read_by(pair, back)
                && is_inside(ranges, address)
            {
                want_at(exit.cells(), address, &mut of_exit);
            }
        }
        let waiting = passage.waiting_below(count);
        for number in 0..back.items().len() {
            if wanted.items.has(number) {
                match number.checked_sub(waiting) {
                    Some(item) => of_exit.want_item(item),
                    None if number < state.items().len() => self.wanted.want_item(number),
                    None => {}
                }
            }
        }
        of_exit
    }
}

impl Passage<'_> {
    /// How many items wait below a procedure that takes so many over.
    fn waiting_below(&self, count: u8) -> usize {
        self.after.items().len().saturating_sub(usize::from(count))
    }
}

/// Whether an address lies in one of these ranges.
fn is_inside(ranges: &[Range], address: u16) -> bool {
    ranges
        .iter()
        .any(|range| range.first <= address && address <= range.last)
}

/// Whether a procedure leaves the byte at an address as one that it has kept.
fn is_given_back(cells: &[Cell], address: u16) -> bool {
    match cell_number(cells, address).and_then(|number| cells.get(number)) {
        Some(cell) => matches!(cell.val.origin, Some(Origin::Kept(_))),
        None => false,
    }
}

/// The cell at an address is wanted, if there is one.
fn want_at(cells: &[Cell], address: u16, wanted: &mut Wanted) {
    if let Some(number) = cell_number(cells, address) {
        wanted.want_cell(number);
    }
}

/// Cells that are wanted after an instruction are wanted before it, except for those that it stores.
fn want_passed(cells: &[Cell], after: &[Cell], write: AbsWrite, wanted: &mut Wanted) {
    for cell in after {
        if !is_stored(write, cell.address) {
            want_at(cells, cell.address, wanted);
        }
    }
}
