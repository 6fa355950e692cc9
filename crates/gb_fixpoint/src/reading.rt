//! The instruction at a node, and what a run learns of it.

use crate::asking::known_hl;
use crate::stacks::is_settable;
use crate::types::{CellRead, Run};
use gb_joining::cause::{Cause, StackMisuse, Wish};
use gb_joining::gb_ops::op::{AluOp, Op, Operand, Pair, Register, Row};
use gb_joining::gb_verify::{Abs, Rules, Span, States, known_byte, length_of, read_in, reduced};
use gb_joining::instruction::{decoded, refused};
use gb_joining::limits::CODE_AHEAD;
use gb_joining::register_set::RegisterSet;
use gb_joining::steps::Steps;
use gb_joining::stop::RunStop;

/// What stands at a node.
#[derive(Clone, Copy)]
struct FoundPoints {
    address: u16,
    /// The number of its procedure.
    procedure: usize,
    opcode: Option<u8>,
    /// The instruction, or why there is none that can be executed.
    row: Result<Row, Cause>,
}

impl<'a> Run<'a> {
    /// The instruction at a node. The code bytes in RAM, the values that it compares with or loads, and what LD SP,n16
    /// loads are recorded.
    pub(crate) fn instruction_at(&mut self, number: usize) -> Result<Row, RunStop> {
        let found = self.found_at(number)?;
        if found.address >= 0x8000 {
            self.record_code(found.procedure, found.address, found.opcode)?;
        }
        let row = match found.row {
            Ok(row) => row,
            Err(cause) => return Err(Run::failure(number, cause, RegisterSet::empty())),
        };
        match row.op {
            Op::LoadPair(Pair::Sp, word) => self.set_stack(number, found.procedure, word)?,
            Op::LoadSpHl => self.set_by_hl(number, found.procedure)?,
            Op::StoreSp(_) => self.mark_here(number),
            _ => {}
        }
        self.record_points(number, row.op)?;
        Ok(row)
    }

    /// What stands at a node, and what it asks of the configuration.
    fn found_at(&self, number: usize) -> Result<FoundPoints, RunStop> {
        let Some(node) = self.nodes.get(number) else {
            return Err(Run::failure(number, Cause::Area, RegisterSet::empty()));
        };
        let (address, procedure) = (node.key.address, node.key.procedure);
        let row = match decoded(&self.program(), self.rom, &node.state, address) {
            Ok(row) => match self.refused_at(procedure, &node.state, address, row.op)? {
                None => Ok(row),
                Some(cause) => Err(cause),
            },
            Err(cause) => Err(cause),
        };
        Ok(FoundPoints {
            address,
            procedure,
            opcode: known_byte(&self.program(), self.rom, &node.state, address),
            row,
        })
    }

    /// The bytes of an instruction in RAM are wanted, as far as its length is known; else what was copied there with its first
    /// byte, since code is copied whole.
    fn record_code(
        &mut self,
        procedure: usize,
        address: u16,
        opcode: Option<u8>,
    ) -> Result<(), RunStop> {
        let length = match opcode {
            Some(opcode) => length_of(opcode),
            None => self.copied_from(address),
        };
        for offset in 0..length {
            let byte = address.saturating_add(u16::from(offset));
            self.wanted.insert(byte)?;
            self.fetched.insert(byte)?;
            self.reads.insert(CellRead {
                procedure,
                cell: byte,
            })?;
        }
        Ok(())
    }

    /// How many bytes from an address on were copied, at least one, and at most so many as are wanted at once.
    fn copied_from(&self, address: u16) -> u8 {
        for offset in 1..CODE_AHEAD {
            let byte = address.saturating_add(u16::from(offset));
            if !self.copied.contains(&byte) {
                return offset;
            }
        }
        CODE_AHEAD
    }

    /// Why a known instruction can't be executed, after what it asks of the configuration.
    fn refused_at(
        &self,
        procedure: usize,
        state: &Abs,
        address: u16,
        op: Op,
    ) -> Result<Option<Cause>, RunStop> {
        self.ask_before(procedure, state, op)?;
        let program = self.program();
        Ok(refused(self.rules(), &program, self.rom, state, address, op))
    }

    /// LD SP,n16: by the rules of versions 1 and 2 main's, to the address behind the region; by those of version 3 to an
    /// address of the procedure's stack, or of main's.
    fn set_stack(&mut self, number: usize, procedure: usize, word: u16) -> Result<(), RunStop> {
        if self.sp.is_none() {
            self.sp = Some(word);
        }
        match self.rules() {
            Rules::Simple => self.set_main_stack(number, procedure, word),
            Rules::Extended => self.set_known_stack(number, procedure, word),
        }
    }

    /// SP is set to a known address.
    fn set_known_stack(&self, number: usize, procedure: usize, word: u16) -> Result<(), RunStop> {
        let last = self.configuration.region.last;
        let above = u32::from(last).saturating_add(1);
        if u32::from(word) == above {
            return Ok(());
        }
        if !self.configuration.is_stack_seen {
            return Err(RunStop::StackSet(word));
        }
        let is_near = are_in_one_area(last, word.saturating_sub(1));
        if u32::from(word) > above && is_near && !self.configuration.is_stack_given {
            return Err(RunStop::Wanted(Wish::Top(word)));
        }
        if is_settable(self.stack_of(procedure), word) || self.may_leave_at(number) {
            return Ok(());
        }
        let cause = Cause::Stack(StackMisuse::SetAgain(word));
        Err(Run::failure(number, cause, RegisterSet::empty()))
    }

    /// LD SP,HL: HL is known, and an address of the procedure's stack or of main's. Where nothing is meant, nothing is asked.
    fn set_by_hl(&self, number: usize, procedure: usize) -> Result<(), RunStop> {
        let Some(node) = self.nodes.get(number) else {
            return Ok(());
        };
        let state = &node.state;
        let entered = self.pairs_at_entry(procedure);
        let read = read_in(
            &self.program(),
            &States::of(state),
            &state.relations().pairs,
        );
        let product = reduced(
            self.rules(),
            &entered,
            &read,
            state.core(),
            state.relations(),
        );
        let Some(product) = product else {
            return Ok(());
        };
        let mut meant = state.with_core(product.core);
        meant.set_relations(product.relations);
        match known_hl(&meant) {
            Some(word) if is_settable(self.stack_of(procedure), word) => Ok(()),
            _ if self.may_leave(&meant) || self.may_come_back(procedure, meant.core()) => Ok(()),
            _ => {
                let registers = RegisterSet::of(&[Register::H, Register::L]);
                let cause = Cause::Stack(StackMisuse::SetByHl);
                Err(Run::failure(number, cause, registers))
            }
        }
    }

    /// LD SP,n16: main's, to the address behind the region.
    fn set_main_stack(
        &mut self,
        number: usize,
        procedure: usize,
        word: u16,
    ) -> Result<(), RunStop> {
        let none = RegisterSet::empty();
        if procedure != 0 {
            let cause = Cause::Stack(StackMisuse::SetInCallee);
            return Err(Run::failure(number, cause, none));
        }
        if u32::from(word) == u32::from(self.configuration.region.last) + 1 {
            return Ok(());
        }
        if self.configuration.is_stack_seen {
            let cause = Cause::Stack(StackMisuse::SetAgain(word));
            return Err(Run::failure(number, cause, none));
        }
        Err(RunStop::StackSet(word))
    }

    /// The values at which widening had better stop, by an instruction.
    fn record_points(&mut self, number: usize, op: Op) -> Result<(), RunStop> {
        match op {
            Op::AluImmediate(AluOp::Cp, value) => {
                let points = [value.saturating_sub(1), value, value.saturating_add(1)];
                for point in points {
                    self.add_point(point)?;
                }
                self.record_cell_points(number, &points)
            }
            Op::AluImmediate(AluOp::And, value) => {
                self.add_point(value)?;
                self.record_cell_points(number, &[value])
            }
            Op::LoadImmediate(Operand::Register(Register::A) | Operand::AtHl, value) => {
                self.add_point(value)
            }
            _ => Ok(()),
        }
    }

    fn add_point(&mut self, point: u8) -> Result<(), RunStop> {
        if self.points.insert(point)? {
            self.widening = Steps::new(&self.points);
        }
        Ok(())
    }
}

/// Whether both addresses lie in work RAM, or both in high RAM.
fn are_in_one_area(a: u16, b: u16) -> bool {
    let span = Span {
        first: a.min(b),
        last: a.max(b),
        ..Span::one(a)
    };
    span.is_inside(0xC000, 0xDFFF) || span.is_inside(0xFF80, 0xFFFE)
}
