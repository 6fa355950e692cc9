//! What a step asks of the configuration, by the rules of version 3: procedures that are followed in their callers, that
//! know their base, or that take more of their callers' bytes over. These are decisions of the whole run, so that a run
//! that needs another one stops, and begins anew under it.

use crate::types::Run;
use gb_joining::bounds::bounds_of;
use gb_joining::cause::Wish;
use gb_joining::gb_ops::op::{Indirect, Op, Operand, Pair, Register};
use gb_joining::gb_verify::{
    Abs, AbsRead, AbsWrite, Core, Origin, Rules, Span, Successors, Target, WordPair,
};
use gb_joining::limits::ARGUMENTS;
use gb_joining::stop::RunStop;

/// The bytes that an instruction takes off the stack.
fn bytes_taken(op: Op) -> usize {
    match op {
        Op::Pop(_) => 2,
        Op::IncrementPair(Pair::Sp) => 1,
        Op::AddSp(e8) if e8 < 128 => usize::from(e8),
        _ => 0,
    }
}

/// Whether an instruction asks for the address in SP, or sets it to another one than a number.
fn names_stack(op: Op) -> bool {
    matches!(
        op,
        Op::StoreSp(_) | Op::AddHl(Pair::Sp) | Op::LoadHlSp(_) | Op::LoadSpHl
    )
}

/// Whether a pair of registers holds the return word.
fn holds_return(high: Register, low: Register, core: &Core) -> bool {
    core.registers.get(high).origin == Some(Origin::ReturnHigh)
        && core.registers.get(low).origin == Some(Origin::ReturnLow)
}

/// Whether an instruction counts with the return word, or goes by it as an address.
fn uses_return(op: Op, core: &Core) -> bool {
    let in_bc = holds_return(Register::B, Register::C, core);
    let in_de = holds_return(Register::D, Register::E, core);
    let in_hl = holds_return(Register::H, Register::L, core);
    match op {
        Op::StoreA(Indirect::Bc) | Op::LoadA(Indirect::Bc) => in_bc,
        Op::IncrementPair(Pair::Bc) | Op::DecrementPair(Pair::Bc) => in_bc,
        Op::StoreA(Indirect::De) | Op::LoadA(Indirect::De) => in_de,
        Op::IncrementPair(Pair::De) | Op::DecrementPair(Pair::De) => in_de,
        Op::StoreA(_) | Op::LoadA(_) => in_hl,
        Op::IncrementPair(Pair::Hl) | Op::DecrementPair(Pair::Hl) => in_hl,
        Op::AddHl(Pair::Bc) => in_hl || in_bc,
        Op::AddHl(Pair::De) => in_hl || in_de,
        Op::AddHl(_) => in_hl,
        Op::Load(Operand::Register(_), Operand::AtHl) => in_hl,
        _ => false,
    }
}

/// The addresses of an access that has one span.
fn span_read(read: AbsRead) -> Option<Span> {
    match read {
        AbsRead::Byte(span) if span.is_one() => Some(span),
        _ => None,
    }
}

/// The addresses of a store.
fn span_written(write: AbsWrite) -> Option<Span> {
    match write {
        AbsWrite::Byte(span, _) => Some(span),
        AbsWrite::Word(address, _, _) => Some(Span {
            first: address,
            last: address.saturating_add(1),
            ..Span::one(address)
        }),
        AbsWrite::Nothing | AbsWrite::Push { .. } => None,
    }
}

impl<'a> Run<'a> {
    /// Whether a procedure is one that is called, neither main nor a handler: only these can be followed in their callers.
    fn is_called(&self, procedure: usize) -> bool {
        match self.procedures.get(procedure) {
            Some(called) => procedure != 0 && !called.key.is_handler,
            None => false,
        }
    }

    /// A procedure that is called is followed in its callers from now on. Nothing is wanted of main and of handlers.
    pub(crate) fn want_inline(&self, procedure: usize) -> Result<(), RunStop> {
        let target = self.target(procedure);
        if self.is_called(procedure) && !self.configuration.inlined.contains(&target) {
            Err(RunStop::Wanted(Wish::Inline(target)))
        } else {
            Ok(())
        }
    }

    /// A procedure takes over so many more of its callers' bytes from now on, or is followed in them where these are too many.
    pub(crate) fn want_bytes(&self, procedure: usize, more: usize) -> Result<(), RunStop> {
        if !self.is_called(procedure) {
            return Ok(());
        }
        let target = self.target(procedure);
        match u8::try_from(more) {
            Ok(more)
                if more <= ARGUMENTS
                    && self.configuration.arguments_at(target) <= ARGUMENTS - more => {
                Err(RunStop::Wanted(Wish::Arguments { target, more }))
            }
            _ => self.want_inline(procedure),
        }
    }

    /// A procedure knows its base from now on, if it doesn't yet.
    pub(crate) fn want_base(&self, procedure: usize) -> Result<(), RunStop> {
        let target = self.target(procedure);
        if procedure == 0
            || self.base_of(procedure) != 0
            || self.configuration.based.contains(&target)
        {
            Ok(())
        } else {
            Err(RunStop::Wanted(Wish::Base(target)))
        }
    }

    /// Whether SP is saved where the procedure's mark is or may be, or comes back in a procedure that has one: then its base needn't be
    /// known (version 4). That HL is the mark's address shows once the bytes are tracked that it comes from.
    fn goes_by_mark(&self, procedure: usize, state: &Abs, op: Op) -> bool {
        match op {
            Op::StoreSp(_) => self.may_mark(procedure, state),
            Op::LoadSpHl => self.has_mark(procedure),
            _ => false,
        }
    }

    /// What an instruction asks before it is executed in a state of a procedure.
    pub(crate) fn ask_before(&self, procedure: usize, state: &Abs, op: Op) -> Result<(), RunStop> {
        if self.rules() == Rules::Simple {
            return Ok(());
        }
        let missing = bytes_taken(op).saturating_sub(state.items().len());
        if state.core().stack_set && missing != 0 {
            self.want_bytes(procedure, missing)?;
        }
        if names_stack(op) && !self.goes_by_mark(procedure, state, op) {
            self.want_base(procedure)?;
        }
        if procedure != 0 && uses_return(op, state.core()) {
            self.want_inline(procedure)?;
        }
        Ok(())
    }

    /// What an instruction asks, by what it reads and writes and where it goes on.
    pub(crate) fn ask_behind(
        &self,
        procedure: usize,
        ways: &Successors<'_>,
    ) -> Result<(), RunStop> {
        if self.rules() == Rules::Simple || procedure == 0 {
            return Ok(());
        }
        if let Some(taken) = &ways.taken {
            if let Some(span) = span_written(taken.write) {
                self.ask_store(procedure, span)?;
            }
            if let Some(span) = span_read(taken.read) {
                self.ask_read(procedure, span)?;
            }
            if taken.target == Target::Lost {
                self.want_inline(procedure)?;
            }
        }
        Ok(())
    }

    /// Whether addresses lie in the stack region, all of them.
    fn lies_in_region(&self, span: Span) -> bool {
        let region = self.configuration.region;
        span.is_inside(region.first, region.last)
    }

    /// A store into the stack region: the procedure knows its base, and the bytes are its own.
    fn ask_store(&self, procedure: usize, span: Span) -> Result<(), RunStop> {
        if !self.lies_in_region(span) {
            return Ok(());
        }
        self.want_base(procedure)?;
        self.ask_above(procedure, span)
    }

    /// A read of one byte of the stack: it is the procedure's own.
    fn ask_read(&self, procedure: usize, span: Span) -> Result<(), RunStop> {
        if self.lies_in_region(span) {
            self.ask_above(procedure, span)
        } else {
            Ok(())
        }
    }

    /// Bytes at and above the base are taken over.
    fn ask_above(&self, procedure: usize, span: Span) -> Result<(), RunStop> {
        let base = self.base_of(procedure);
        if base != 0 && base <= span.last {
            let above = usize::from(span.last.saturating_sub(base));
            self.want_bytes(procedure, above.saturating_add(1))?;
        }
        Ok(())
    }
}

/// The address in HL, where it is known.
pub(crate) fn known_hl(state: &Abs) -> Option<u16> {
    let bounds = bounds_of(
        WordPair::Hl,
        &state.core().registers,
        &state.relations().pairs,
    );
    if bounds.first == bounds.last {
        Some(bounds.first)
    } else {
        None
    }
}
