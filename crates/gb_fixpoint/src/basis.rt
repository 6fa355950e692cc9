//! How a run's states are stepped, entered and resumed: by the checker's own functions, with the rules and the facts of its configuration.

use crate::types::Run;
use gb_joining::basis::Basis;
use gb_joining::configuration::Configuration;
use gb_joining::gb_ops::op::Row;
use gb_joining::gb_verify::{Abs, Program, Resumed, Successors, enter, resume, successors_of};

impl<'a> Run<'a> {
    /// What states may speak of beside themselves: by the rules of versions 1 to 3 nothing.
    pub fn program(&self) -> Program<'_> {
        let Basis { program, .. } = self.basis();
        program
    }

    /// By what states are compared and joined.
    pub fn basis(&self) -> Basis<'_> {
        let Configuration { edition, facts, .. } = &self.configuration;
        Basis::of(*edition, self.rom.kind(), facts.as_slice())
    }

    /// Where an instruction at an address of a procedure leads from a state.
    pub fn ways_from<'s>(
        &self,
        procedure: usize,
        row: Row,
        address: u16,
        state: &'s Abs,
    ) -> Successors<'s> {
        let stack = self.stack_of(procedure);
        let program = self.program();
        successors_of(stack, &program, self.rom, row, address, state)
    }

    /// What a procedure that takes so many bytes over begins with where it is called in a state.
    pub fn entered(&self, taken: u8, caller: &Abs) -> Abs {
        let program = self.program();
        let region = self.configuration.region;
        enter(&program, region, self.rules(), taken, &self.kept, caller)
    }

    /// What a procedure goes on with in whose state a callee was called that has returned; none where it hasn't yet.
    pub fn resumed(&self, procedure: usize, callee: usize, caller: &Abs) -> Option<Resumed> {
        let called = self.procedures.get(callee)?;
        let Some(exit) = &called.exit else {
            return None
        };
        let program = self.program();
        let stack = self.stack_of(procedure);
        Some(resume(
            &program,
            stack.setting,
            stack.region,
            called.key.taken,
            called.ranges.as_slice(),
            &self.kept,
            caller,
            exit,
        ))
    }
}
