//! What nodes enter, for who puts procedures in order.

use crate::contexts::Context;
use crate::types::Run;
use gb_joining::code_point::CodePoint;
use gb_joining::gb_spelling::INTERRUPT_COUNT;
use gb_joining::gb_verify::{Abs, Successor, Target, left_by_dispatch, may_come};
use gb_joining::instruction::decoded;
use std::alloc::AllocError;

/// What a node enters, and where.
#[derive(Drop)]
pub struct Entered {
    pub target: CodePoint,
    pub is_handler: bool,
    /// What the callee begins with.
    pub state: Abs,
    /// The base of the callee, and how many of its caller's bytes it takes over.
    pub context: Context,
    /// The caller's base, and its bytes with the return word.
    pub caller: u16,
    pub held: usize,
}

impl<'a> Run<'a> {
    /// What a node's instruction calls, and which handlers may interrupt it.
    pub fn entered_from(&self, number: usize) -> Result<Vec<Entered>, AllocError> {
        let mut all = Vec::new(self.alloc);
        let Some(node) = self.nodes.get(number) else {
            return Ok(all);
        };
        if let Ok(row) = decoded(&self.program(), self.rom, &node.state, node.key.address) {
            let caller = node.key.procedure;
            let ways = self.ways_from(caller, row, node.key.address, &node.state);
            let taken = self.called_by(caller, &ways.taken);
            let not_taken = self.called_by(caller, &ways.not_taken);
            let stays = self.called_by(caller, &ways.stays);
            for entered in [taken, not_taken, stays].into_iter().flatten() {
                all.push(entered)?;
            }
        }
        let after = left_by_dispatch(self.rules(), node.key.address, &node.state);
        for interrupt in 0..INTERRUPT_COUNT {
            let vector = self.vector_of(interrupt, node);
            if may_come(interrupt, node.state.core()) && !self.is_inlined(vector) {
                all.push(self.entered_in(node.key.procedure, vector, true, &after))?;
            }
        }
        Ok(all)
    }

    fn called_by(&self, caller: usize, way: &Option<Successor<'_>>) -> Option<Entered> {
        let Some(successor) = way else { return None };
        match successor.target {
            Target::Call(address) => {
                let state = successor.state();
                let target = CodePoint::of(self.rom, &state.core().ctl, address);
                if self.is_inlined(target) {
                    None
                } else {
                    Some(self.entered_in(caller, target, false, &state))
                }
            }
            _ => None,
        }
    }

    fn entered_in(
        &self,
        procedure: usize,
        target: CodePoint,
        is_handler: bool,
        caller: &Abs,
    ) -> Entered {
        let context = self.context(procedure, caller, target);
        let mut state = self.entered(context.taken, caller);
        self.settle(&mut state);
        Entered {
            target,
            is_handler,
            state,
            context,
            caller: self.base_of(procedure),
            held: caller.items().len(),
        }
    }

    /// The procedure that the run enters there.
    pub fn own_procedure(&self, entered: &Entered) -> Option<usize> {
        let cells = self.find_entry_cells(entered.target, entered.state.cells())?;
        let core = entered.state.core();
        let key = self.procedure_key(
            core,
            entered.target,
            entered.is_handler,
            cells,
            entered.context,
        );
        self.procedure_index.get(&key).copied()
    }
}
