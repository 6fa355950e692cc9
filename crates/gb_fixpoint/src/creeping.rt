//! Cells that creep: counters in RAM, whose bounds go on from step to step, each time through all that is run. Such a cell goes
//! on to the next value that it is compared with or masked by itself, else to an end.

use crate::types::{CellPoint, Creep, Run, RunNode};
use arrayvec::ArrayVec;
use gb_joining::gb_ops::op::{Indirect, Op, Operand, Register, StackPair};
use gb_joining::gb_verify::{Abs, Cell, Val, any, cell_at};
use gb_joining::instruction::decoded;
use gb_joining::limits::{CREEPS, POINT_STEPS};
use gb_joining::naming::is_read;
use gb_joining::steps::with_known_bits;
use gb_joining::stop::RunStop;

/// Where A comes from, by one instruction.
#[derive(Clone, Copy)]
enum Source {
    Cell(u16),
    /// Elsewhere than from one known address.
    Other,
    /// From before the instruction.
    Before,
}

/// The cell at the address in two registers, where that is known.
fn cell_of(state: &Abs, high: Register, low: Register) -> Source {
    let registers = &state.core().registers;
    let (high, low) = (registers.get(high), registers.get(low));
    if high.lo == high.hi && low.lo == low.hi {
        Source::Cell(u16::from_be_bytes([high.lo, low.lo]))
    } else {
        Source::Other
    }
}

/// Where an instruction gets A from.
fn source_of(op: Op, state: &Abs) -> Source {
    match op {
        Op::LoadAbsolute(cell) => Source::Cell(cell),
        Op::LoadHigh(low) => Source::Cell(0xFF00 | u16::from(low)),
        Op::LoadA(Indirect::Bc) => cell_of(state, Register::B, Register::C),
        Op::LoadA(Indirect::De) => cell_of(state, Register::D, Register::E),
        Op::LoadA(_) | Op::Load(Operand::Register(Register::A), Operand::AtHl) => {
            cell_of(state, Register::H, Register::L)
        }
        Op::Load(Operand::Register(Register::A), _)
        | Op::LoadImmediate(Operand::Register(Register::A), _)
        | Op::LoadHighC
        | Op::Pop(StackPair::Af) => Source::Other,
        _ => Source::Before,
    }
}

/// The cells whose bounds differ in two states.
fn changed_cells(old: &[Cell], new: &[Cell]) -> ArrayVec<u16, 64> {
    let mut changed = ArrayVec::new();
    for cell in new {
        let before = cell_at(cell.address, old);
        if before.lo != cell.val.lo || before.hi != cell.val.hi {
            let _ = changed.try_push(cell.address);
        }
    }
    changed
}

impl<'a> Run<'a> {
    /// The cell that A was last loaded from at a node, on the way by which it was first reached.
    fn cell_behind(&self, number: usize) -> Option<u16> {
        let mut at = number;
        for _ in 0..POINT_STEPS {
            at = self.nodes.get(at)?.via?;
            let node = self.nodes.get(at)?;
            let Ok(row) = decoded(&self.program(), self.rom, &node.state, node.key.address) else {
                return None;
            };
            match source_of(row.op, &node.state) {
                Source::Cell(cell) => return Some(cell),
                Source::Other => return None,
                Source::Before => {}
            }
        }
        None
    }

    /// What is compared with these values, or masked by them, at a node is a cell's byte, or was computed from it.
    pub(crate) fn record_cell_points(
        &mut self,
        number: usize,
        points: &[u8],
    ) -> Result<(), RunStop> {
        let is_first = match self.nodes.get(number) {
            Some(node) => node.growths == 0,
            None => false,
        };
        if is_first && let Some(cell) = self.cell_behind(number) {
            for point in points {
                self.cell_points.insert(CellPoint {
                    cell,
                    point: *point,
                })?;
            }
        }
        Ok(())
    }

    /// Counts that cells are widened at a node. Those that were often go further, but not where a link reads them: such a counter ends.
    pub(crate) fn hasten(&mut self, number: usize, grown: &mut Abs) -> Result<(), RunStop> {
        let Some(node) = self.nodes.get(number) else {
            return Ok(());
        };
        let mut often: ArrayVec<u16, 64> = ArrayVec::new();
        let changed = changed_cells(node.state.cells(), grown.cells());
        for cell in changed.as_slice() {
            let creep = Creep {
                node: number,
                cell: *cell,
            };
            let count = self.creeps.entry(creep)?.or_insert(0);
            *count = count.saturating_add(1);
            if *count > CREEPS && !is_read(*cell, grown.relations()) {
                let _ = often.try_push(*cell);
            }
        }
        if !often.is_empty()
            && let Some(node) = self.nodes.get(number)
        {
            let cells = self.hastened(node, grown.cells(), often.as_slice());
            grown.set_cells(cells);
        }
        Ok(())
    }

    /// The cells of a node that grew; some of them go on to a value that they are compared with, or to an end.
    fn hastened(&self, node: &RunNode, grown: &[Cell], often: &[u16]) -> ArrayVec<Cell, 64> {
        let mut cells = ArrayVec::new();
        for cell in grown {
            let val = if often.contains(&cell.address) {
                let before = cell_at(cell.address, node.state.cells());
                self.beyond(cell.address, before, cell.val)
            } else {
                cell.val
            };
            if val != any() {
                let _ = cells.try_push(Cell { val, ..*cell });
            }
        }
        cells
    }

    /// The bounds of a cell, of which those that grew go on.
    fn beyond(&self, cell: u16, before: Val, val: Val) -> Val {
        let mut lo = 0;
        let mut hi = u8::MAX;
        for point in &self.cell_points {
            if point.cell == cell && point.point <= val.lo {
                lo = point.point.max(lo);
            }
            if point.cell == cell && val.hi <= point.point {
                hi = point.point.min(hi);
            }
        }
        let lo = if val.lo < before.lo { lo } else { val.lo };
        let hi = if before.hi < val.hi { hi } else { val.hi };
        with_known_bits(lo, hi, val)
    }
}
