//! What a procedure is entered with beside its caller's registers and memory: its base, and the bytes of its caller's
//! stack that it takes over.

use crate::types::Run;
use gb_joining::cause::Wish;
use gb_joining::code_point::CodePoint;
use gb_joining::gb_verify::{Abs, Rules};
use gb_joining::stop::RunStop;

/// With what part of its caller's stack a procedure begins.
#[derive(Clone, Copy, PartialEq, Eq)]
pub struct Context {
    /// The address above its items, 0 where it isn't known.
    pub base: u16,
    /// How many of its caller's bytes it takes over, the newest.
    pub taken: u8,
}

impl<'a> Run<'a> {
    /// Whether calls of a target are followed in their callers.
    pub(crate) fn is_inlined(&self, target: CodePoint) -> bool {
        self.configuration.inlined.contains(&target)
    }

    /// With what a procedure begins that is called from a procedure in a state, the return word being pushed.
    pub(crate) fn context(&self, procedure: usize, caller: &Abs, target: CodePoint) -> Context {
        let taken = self.configuration.taken_at(target);
        let above = self.base_of(procedure);
        let waiting = caller.items().len().saturating_sub(usize::from(taken));
        let base = match u16::try_from(waiting) {
            Ok(waiting) if above != 0 && self.configuration.based.contains(&target) => {
                above.saturating_sub(waiting)
            }
            _ => 0,
        };
        Context { base, taken }
    }

    /// What a call asks of the configuration: the caller has the bytes that its callee takes over, and knows its base where
    /// the callee is to know it.
    pub(crate) fn ask_callee(
        &self,
        procedure: usize,
        caller: &Abs,
        target: CodePoint,
    ) -> Result<(), RunStop> {
        if self.rules() == Rules::Simple {
            return Ok(());
        }
        let taken = usize::from(self.configuration.taken_at(target));
        let missing = taken.saturating_sub(caller.items().len());
        if missing != 0 {
            self.want_bytes(procedure, missing)?;
            return Err(RunStop::Wanted(Wish::Inline(target)));
        }
        if self.configuration.based.contains(&target) {
            self.want_base(procedure)?;
        }
        Ok(())
    }

    /// Main begins anew at an address, from a node of another procedure.
    pub(crate) fn begin_anew(
        &mut self,
        number: usize,
        address: u16,
        state: &mut Abs,
    ) -> Result<(), RunStop> {
        let point = CodePoint::of(self.rom, &state.core().ctl, address);
        self.flow_in(number, 0, point, state)
    }
}
