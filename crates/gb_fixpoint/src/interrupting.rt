//! Interrupts. Most of those that may come at a node tell nothing new, which is seen by comparing: no state is made for them.

use crate::contexts::Context;
use crate::types::{Run, RunNode, RunProcedure};
use gb_joining::bounds::{WORD_PAIRS, facts_of};
use gb_joining::cause::Cause;
use gb_joining::code_point::CodePoint;
use gb_joining::covering::{are_cells_known, are_items_known};
use gb_joining::gb_ops::machine::Kind;
use gb_joining::gb_ops::registers::Registers;
use gb_joining::gb_spelling::{INTERRUPT_COUNT, vector_of};
use gb_joining::gb_verify::{
    Abs, Cell, Core, Ctl, Flg, ImeSet, KeptBanks, Origin, Pairs, Range, Rules, Shadows, States,
    Summary, Val, cell_at, covers_controller, covers_core, covers_ime, covers_relations,
    covers_said, covers_val, left_by_dispatch, may_come,
};
use gb_joining::handlers::{
    are_reads_kept, entered_core, gives_back_all, has_links, holds_cells, holds_core,
    holds_summary, is_in, return_word,
};
use gb_joining::keys::ProcedureKey;
use gb_joining::register_set::{REGISTERS, RegisterSet};
use gb_joining::seen::kept_origin;
use gb_joining::stop::RunStop;

/// The bytes of a return word.
const RETURN_WORD: u8 = 2;

impl<'a> Run<'a> {
    /// Dispatches each interrupt that may come at a node.
    pub(crate) fn interrupt(&mut self, number: usize) -> Result<(), RunStop> {
        let Some(node) = self.nodes.get(number) else {
            return Ok(());
        };
        let core = *node.state.core();
        if !core.ime.on || self.probed.is_some() {
            return Ok(());
        }
        for interrupt in 0..INTERRUPT_COUNT {
            if may_come(interrupt, &core) {
                if !core.stack_set {
                    let cause = Cause::InterruptWithoutStack { interrupt };
                    return Err(Run::failure(number, cause, RegisterSet::empty()));
                }
                let outcome = self.dispatch(number, interrupt);
                self.keep(outcome)?;
            }
        }
        Ok(())
    }

    /// Where the handler of an interrupt begins that comes at a node.
    pub(crate) fn vector_of(&self, interrupt: u8, node: &RunNode) -> CodePoint {
        CodePoint::of(self.rom, &node.state.core().ctl, vector_of(interrupt))
    }

    /// A handler comes at a node. Where it begins and ends with nothing new, only that it comes there is recorded.
    fn dispatch(&mut self, number: usize, interrupt: u8) -> Result<(), RunStop> {
        let Some(node) = self.nodes.get(number) else {
            return Ok(());
        };
        let vector = self.vector_of(interrupt, node);
        let (procedure, address) = (node.key.procedure, node.key.address);
        match self.holding_handler(node, vector) {
            Some(handler) => self.link_handler(number, procedure, handler, vector),
            None => self.dispatch_to(number, vector, address),
        }
    }

    /// A handler comes at a node at an address, with something new.
    #[inline(never)]
    fn dispatch_to(
        &mut self,
        number: usize,
        vector: CodePoint,
        address: u16,
    ) -> Result<(), RunStop> {
        let Some(node) = self.nodes.get(number) else {
            return Ok(());
        };
        let mut after = left_by_dispatch(self.rules(), address, &node.state);
        self.call(number, &mut after, vector.address, address, true)
    }

    /// Whether a handler's target is called plainly: its return word alone is taken over, and its base isn't known.
    fn is_plain(&self, vector: CodePoint) -> bool {
        self.rules() == Rules::Extended
            && self.configuration.taken_at(vector) == RETURN_WORD
            && !self.configuration.based.contains(&vector)
            && !self.is_inlined(vector)
    }

    /// The handler at a vector that was entered in a node's states before, whose core it begins with is given.
    fn handler_of(&self, node: &RunNode, vector: CodePoint, entered: &Core) -> Option<usize> {
        let cells = self.find_entry_cells(vector, node.state.cells())?;
        let context = Context {
            base: 0,
            taken: RETURN_WORD,
        };
        let key = ProcedureKey {
            has_all_facts: self.has_facts() && self.claims_all(&node.state),
            ..self.procedure_key(entered, vector, true, cells, context)
        };
        self.procedure_index.get(&key).copied()
    }

    /// The handler that comes at a node with nothing new, and leaves it with nothing new.
    fn holding_handler(&self, node: &RunNode, vector: CodePoint) -> Option<usize> {
        if node.state.core().bound != 0 || !self.is_plain(vector) {
            return None;
        }
        let entered = entered_core(node.state.core());
        let number = self.handler_of(node, vector, &entered)?;
        let handler = self.procedures.get(number)?;
        if self.is_entered(handler, node, &entered) && self.is_left(handler, node) {
            Some(number)
        } else {
            None
        }
    }

    /// A node becomes a site of a handler that begins and leaves it with nothing new.
    fn link_handler(
        &mut self,
        number: usize,
        procedure: usize,
        handler: usize,
        vector: CodePoint,
    ) -> Result<(), RunStop> {
        let is_known = match self.procedures.get(handler) {
            Some(handler) => handler.sites.contains(&number),
            None => true,
        };
        if is_known {
            return Ok(());
        }
        self.link(number, procedure, handler, vector.address)?;
        self.inherit_ranges(procedure, handler)
    }

    /// Whether a handler's first node holds all that it begins with at a node.
    fn is_entered(&self, handler: &RunProcedure, node: &RunNode, entered: &Core) -> bool {
        let Some(entry) = handler.entry else {
            return false;
        };
        let Some(first) = self.nodes.get(entry) else {
            return false;
        };
        let state = &first.state;
        let program = self.program();
        covers_core(program.kind, entered, state.core())
            && are_items_known(state.items(), &return_word(node.key.address))
            && self.are_cells_entered(state.cells(), node.state.cells())
            && covers_relations(
                &program,
                &States {
                    core: entered,
                    ..States::of(&node.state)
                },
                state.relations(),
            )
            && covers_said(
                &program,
                &States::of(&node.state),
                state.cells(),
                state.summary(),
            )
    }

    /// Whether all that cells at a procedure's entry say is known of its caller's: those that are kept are copies of themselves.
    fn are_cells_entered(&self, cells: &[Cell], callers: &[Cell]) -> bool {
        if self.kept.is_empty() {
            return are_cells_known(cells, callers);
        }
        cells.iter().all(|cell| {
            let known = cell_at(cell.address, callers);
            let origin = match kept_origin(self.kept.as_slice(), cell.address) {
                Some(origin) => Some(origin),
                None => known.origin,
            };
            covers_val(&Val { origin, ..known }, &cell.val)
        })
    }

    /// Whether a node holds all that it goes on with behind a handler, or the handler hasn't returned yet.
    fn is_left(&self, handler: &RunProcedure, node: &RunNode) -> bool {
        match &handler.exit {
            Some(exit) => self.holds_left(&node.state, handler.ranges.as_slice(), exit),
            None => true,
        }
    }

    /// Whether a state holds all that it goes on with behind a handler with these ranges and this exit.
    fn holds_left(&self, state: &Abs, ranges: &[Range], exit: &Abs) -> bool {
        let is_place_kept = match state.relations().byte.address {
            Some(address) => !is_in(ranges, address),
            None => true,
        };
        let kind = self.program().kind;
        exit.items().is_empty()
            && gives_back_all(exit.core())
            && holds_core(kind, state.core(), exit.core())
            && !has_links(&exit.relations().pairs)
            && is_place_kept
            && are_reads_kept(ranges, &state.relations().pairs)
            && holds_cells(self.kept.as_slice(), ranges, state.cells(), exit.cells())
            && holds_summary(ranges, state.summary(), exit)
    }

    /// Whether it is still this handler that comes at a node, whose state may have grown since.
    fn is_still_entered(&self, node: &RunNode, handler: usize) -> bool {
        let vector = self.target(handler);
        !self.is_plain(vector)
            || self.handler_of(node, vector, &entered_core(node.state.core())) == Some(handler)
    }

    /// A node goes on behind a handler that may interrupt it, and whose exit or ranges grew.
    pub(crate) fn come_back(&mut self, number: usize, handler: usize) -> Result<(), RunStop> {
        let Some(node) = self.nodes.get(number) else {
            return Ok(());
        };
        let (procedure, address) = (node.key.procedure, node.key.address);
        self.inherit_ranges(procedure, handler)?;
        let Some(node) = self.nodes.get(number) else {
            return Ok(());
        };
        let is_held = match self.procedures.get(handler) {
            Some(handler) => self.is_plain(handler.key.point()) && self.is_left(handler, node),
            None => true,
        };
        if is_held || !self.is_still_entered(node, handler) {
            return Ok(());
        }
        self.go_behind_handler(number, handler, address)
    }

    /// A node at an address goes on behind a handler. Out of line: room for a state is cleared only then.
    #[inline(never)]
    fn go_behind_handler(
        &mut self,
        number: usize,
        handler: usize,
        address: u16,
    ) -> Result<(), RunStop> {
        let Some(node) = self.nodes.get(number) else {
            return Ok(());
        };
        let after = left_by_dispatch(self.rules(), address, &node.state);
        self.go_behind(number, handler, &after, address)
    }
}
