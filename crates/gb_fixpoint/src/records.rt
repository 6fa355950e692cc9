//! What refinement wants to know of a step's accesses.

use crate::types::{CellRead, CellStore, Run, Spot};
use gb_joining::gb_ops::op::{Op, Register};
use gb_joining::gb_verify::{Abs, AbsRead, AbsWrite, Range, Rules, Span, Successors, Val, is_ram};
use gb_joining::stop::RunStop;

/// Where the byte at an address is kept: the echo of work RAM is the same byte.
fn home_of(address: u16) -> u16 {
    match address {
        0xE000..=0xFDFF => address - 0x2000,
        _ => address,
    }
}

/// Whether an instruction stores A.
fn stores_a(op: Op) -> bool {
    op.stored() == Some(Register::A)
}

/// Whether an instruction names the byte that it loads.
fn names_cell(op: Op) -> bool {
    matches!(op, Op::LoadHigh(_) | Op::LoadAbsolute(_))
}

/// Whether all of these addresses are work RAM's, or high RAM's.
fn lies_in_ram(span: Span) -> bool {
    span.is_inside(0xC000, 0xDFFF) || span.is_inside(0xFF80, 0xFFFE)
}

impl<'a> Run<'a> {
    /// Records the accesses of a node's instruction, none of which is refused.
    pub(crate) fn record_accesses(
        &mut self,
        number: usize,
        op: Op,
        ways: &Successors<'_>,
    ) -> Result<(), RunStop> {
        let Some(node) = self.nodes.get(number) else {
            return Ok(());
        };
        let spot = node.spot();
        let Some(taken) = &ways.taken else {
            return Ok(());
        };
        if let AbsRead::Byte(span) = taken.read {
            self.record_read(spot.procedure, op, span)?;
            self.record_bytes_read(number, op, span)?;
        }
        match taken.write {
            AbsWrite::Byte(span, val) => self.record_store(number, spot, op, span, val),
            AbsWrite::Word(address, low, high) => {
                let behind = Span::one(address.wrapping_add(1));
                self.record_store(number, spot, op, Span::one(address), low)?;
                self.record_store(number, spot, op, behind, high)
            }
            AbsWrite::Nothing | AbsWrite::Push { .. } => Ok(()),
        }
    }

    /// A byte of RAM that is read at one address is wanted.
    fn record_read(&mut self, procedure: usize, op: Op, span: Span) -> Result<(), RunStop> {
        let home = home_of(span.first);
        if span.is_one() {
            self.reads.insert(CellRead {
                procedure,
                cell: home,
            })?;
        } else if span.last >= 0xC000 {
            self.record_reads(procedure, span)?;
        }
        if span.is_one() && is_ram(home) {
            self.wanted.insert(home)?;
            if names_cell(op) {
                self.named.insert(home)?;
            }
        }
        Ok(())
    }

    /// All tracked cells among several addresses may be read, and all of work RAM by its echo.
    fn record_reads(&mut self, procedure: usize, span: Span) -> Result<(), RunStop> {
        let is_echo = span.may_meet(0xE000, 0xFDFF);
        for cell in &self.tracked {
            if is_echo || (span.first <= *cell && *cell <= span.last) {
                self.reads.insert(CellRead {
                    procedure,
                    cell: *cell,
                })?;
            }
        }
        Ok(())
    }

    fn record_store(
        &mut self,
        number: usize,
        spot: Spot,
        op: Op,
        span: Span,
        val: Val,
    ) -> Result<(), RunStop> {
        let is_known = val.lo == val.hi;
        if span.last < 0x8000 && !is_known {
            self.switches.insert(spot)?;
        }
        if !lies_in_ram(span) {
            return Ok(());
        }
        let cell = span.first;
        if span.is_one() {
            self.copied.insert(cell)?;
            if (val.lo, val.hi) != (0, u8::MAX) {
                self.set.insert(cell)?;
            }
            if !is_known && stores_a(op) && self.configuration.tracked.contains(&cell) {
                self.stores.insert(CellStore { cell, spot })?;
            }
        } else if self.holds_cell(number, span, val) {
            self.killers.insert(spot)?;
        }
        if self.is_ranged(spot.procedure, span) {
            let range = Range {
                first: span.first,
                last: span.last,
            };
            self.record_written(spot.procedure, range)?;
        }
        Ok(())
    }

    /// Whether a procedure has to declare that it writes there: by the rules of version 3 main declares nothing, and no
    /// procedure the bytes of the stack.
    fn is_ranged(&self, procedure: usize, span: Span) -> bool {
        let region = self.configuration.region;
        match self.rules() {
            Rules::Simple => true,
            Rules::Extended => procedure != 0 && !span.may_meet(region.first, region.last),
        }
    }

    /// Whether a node holds a cell at one of these addresses that the store of a value drops, or by the rules of version 3
    /// a known one that it widens.
    fn holds_cell(&self, number: usize, span: Span, val: Val) -> bool {
        let is_extended = self.rules() == Rules::Extended;
        match self.nodes.get(number) {
            Some(node) => node.state.cells().iter().any(|cell| span.first <= cell.address
                && cell.address <= span.last
                && (!is_extended
                    || (cell.val.lo == cell.val.hi
                        && (val.lo < cell.val.lo || cell.val.hi < val.hi)))),
            None => false,
        }
    }

    /// The addresses are recorded that shadow registers of the controller in a state.
    pub fn record_shadows(&mut self, state: &Abs) -> Result<(), RunStop> {
        let shadows = state.summary().shadows();
        if let Some(address) = shadows.first.address {
            self.shadows.insert(address)?;
        }
        if let Some(address) = shadows.second.address {
            self.shadows.insert(address)?;
        }
        Ok(())
    }
}
