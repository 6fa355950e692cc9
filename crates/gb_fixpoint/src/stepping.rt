//! One step: a node's instruction is executed, and the interrupts come that may come.

use crate::types::Run;
use gb_joining::cause::Cause;
use gb_joining::gb_ops::op::Op;
use gb_joining::gb_verify::{Abs, Rules, Successor, Successors, Target};
use gb_joining::refusals::{AtInstruction, refusal};
use gb_joining::register_set::RegisterSet;
use gb_joining::stop::RunStop;

/// The bytes of a return word.
const RETURN_WORD: usize = 2;

impl<'a> Run<'a> {
    /// Executes the instruction at a node, and dispatches each interrupt that may come there.
    pub(crate) fn step(&mut self, number: usize) -> Result<(), RunStop> {
        let row = self.instruction_at(number)?;
        let Some(node) = self.nodes.get(number) else {
            return Ok(());
        };
        let (procedure, address) = (node.key.procedure, node.key.address);
        let state = node.state.copied();
        let stack = self.stack_of(procedure);
        let ways = self.ways_from(procedure, row, address, &state);
        self.ask_behind(procedure, &ways)?;
        let standing = AtInstruction {
            stack,
            state: &state,
            address,
            row,
        };
        if let Some((cause, registers)) = refusal(self.rom, standing, &ways) {
            return Err(Run::failure(number, cause, registers));
        }
        self.refuse_return(number, row.op, &ways)?;
        self.record_accesses(number, row.op, &ways)?;
        self.record_broken(number, row.op, &ways)?;
        let taken = self.follow(number, ways.taken);
        self.keep(taken)?;
        let not_taken = self.follow(number, ways.not_taken);
        self.keep(not_taken)?;
        let stays = self.follow(number, ways.stays);
        self.keep(stays)?;
        self.interrupt(number)
    }

    /// RETI of a handler that goes on at a word which it has pushed: no rule is against it, but no one means it.
    fn refuse_return(&self, number: usize, op: Op, ways: &Successors<'_>) -> Result<(), RunStop> {
        let Some(node) = self.nodes.get(number) else {
            return Ok(());
        };
        let is_handler = match self.procedures.get(node.key.procedure) {
            Some(procedure) => procedure.key.is_handler,
            None => false,
        };
        match &ways.taken {
            Some(taken)
                if is_handler
                    && op == Op::ReturnFromInterrupt
                    && matches!(taken.target, Target::At(_)) => {
                let bytes = node.state.items().len().saturating_sub(RETURN_WORD);
                let cause = Cause::ReturnWithBytes { bytes };
                Err(Run::failure(number, cause, RegisterSet::empty()))
            }
            _ => Ok(()),
        }
    }

    /// Goes on by one way.
    fn follow(&mut self, number: usize, way: Option<Successor<'_>>) -> Result<(), RunStop> {
        match way {
            Some(successor) => self.go_on(number, &successor),
            None => Ok(()),
        }
    }

    fn go_on(&mut self, number: usize, successor: &Successor<'_>) -> Result<(), RunStop> {
        match successor.target {
            Target::Lost => {
                let cause = Cause::ReturnToUnknown;
                Err(Run::failure(number, cause, RegisterSet::empty()))
            }
            Target::Unknown => Ok(()),
            _ => self.go_on_in(number, successor),
        }
    }

    /// Goes on where a known address follows.
    fn go_on_in(&mut self, number: usize, successor: &Successor<'_>) -> Result<(), RunStop> {
        let mut state = successor.state();
        self.hold_level(number, &mut state);
        match successor.target {
            Target::At(address) => self.flow(number, address, &mut state),
            Target::Call(address) => self.call(number, &mut state, address, successor.next, false),
            Target::Return => self.leave(number, &mut state),
            Target::Main(address) => self.begin_anew(number, address, &mut state),
            Target::Lost | Target::Unknown => Ok(()),
        }
    }

    /// A node's procedure returns in a state.
    fn leave(&mut self, number: usize, state: &mut Abs) -> Result<(), RunStop> {
        let Some(node) = self.nodes.get(number) else {
            return Ok(());
        };
        let procedure = node.key.procedure;
        if procedure == 0 {
            return Err(Run::failure(number, Cause::ReturnInMain, RegisterSet::empty()));
        }
        let bytes = state.items().len();
        if bytes != 0 && self.rules() == Rules::Simple {
            let cause = Cause::ReturnWithBytes { bytes };
            return Err(Run::failure(number, cause, RegisterSet::empty()));
        }
        if self.probed.is_some() {
            return Ok(());
        }
        self.settle(state);
        self.fix_fills(state);
        self.leave_bases(state);
        if self.leaves_others(procedure, state) {
            self.want_inline(procedure)?;
            let cause = Cause::ReturnWithOthers;
            return Err(Run::failure(number, cause, RegisterSet::empty()));
        }
        self.exit(procedure, state)
    }

    /// Whether a procedure's exit has another number of bytes on the stack than a state.
    fn leaves_others(&self, procedure: usize, state: &Abs) -> bool {
        match self.procedures.get(procedure) {
            Some(left) => match &left.exit {
                Some(exit) => exit.items().len() != state.items().len(),
                None => false,
            },
            None => false,
        }
    }
}
