//! The stack of a procedure, as a run sees it.

use crate::types::Run;
use gb_joining::gb_ops::machine::Region;
use gb_joining::gb_verify::{Abs, Core, Origin, Rules, Setting, Stack};

/// The most bytes that SP may be set below a base.
const ROOM: u32 = 255;
/// The mark of a procedure that doesn't save SP: so many bytes are hardly ever held.
const NO_MARK: u8 = 255;

impl<'a> Run<'a> {
    /// The rules by which states are taken on.
    pub fn rules(&self) -> Rules {
        self.configuration.edition.rules()
    }

    /// Whether states know of the whole program, by the rules of version 4.
    pub fn is_fourth(&self) -> bool {
        self.configuration.edition.is_fourth()
    }

    /// The base of a procedure, 0 where it isn't known.
    pub fn base_of(&self, procedure: usize) -> u16 {
        match self.procedures.get(procedure) {
            Some(procedure) => procedure.key.base,
            None => 0,
        }
    }

    /// How many bytes below its base a procedure saves SP; where it doesn't, more than it holds where SP is saved.
    fn mark_of(&self, procedure: usize) -> u8 {
        match self.procedures.get(procedure) {
            Some(procedure) => procedure.mark.unwrap_or(NO_MARK),
            None => NO_MARK,
        }
    }

    /// Whether SP may be put aside in a state: the stack is set, and interrupts are off for sure (version 4).
    pub(crate) fn may_leave(&self, state: &Abs) -> bool {
        let core = state.core();
        self.is_fourth() && core.stack_set && core.ime.off && !core.ime.pending && !core.ime.on
    }

    /// The same for the state of a node.
    pub(crate) fn may_leave_at(&self, number: usize) -> bool {
        match self.nodes.get(number) {
            Some(node) => self.may_leave(&node.state),
            None => false,
        }
    }

    /// Whether SP comes back by HL: it is the address of the procedure's mark.
    pub(crate) fn may_come_back(&self, procedure: usize, core: &Core) -> bool {
        let registers = &core.registers;
        self.has_mark(procedure)
            && core.stack_set
            && registers.h.origin == Some(Origin::MarkHigh)
            && registers.l.origin == Some(Origin::MarkLow)
    }

    /// Whether a procedure has saved SP.
    pub(crate) fn has_mark(&self, procedure: usize) -> bool {
        match self.procedures.get(procedure) {
            Some(procedure) => procedure.mark.is_some(),
            None => false,
        }
    }

    /// Whether a procedure may save SP with so many bytes on the stack and come back by its mark: it has no other one yet.
    pub(crate) fn may_mark(&self, procedure: usize, state: &Abs) -> bool {
        match self.procedures.get(procedure) {
            Some(procedure) if self.is_fourth() && is_located(state) => {
                let held = state.items().len();
                match procedure.mark {
                    Some(mark) => usize::from(mark) == held,
                    None => held < usize::from(NO_MARK),
                }
            }
            _ => false,
        }
    }

    /// A node saves SP: its procedure's mark is there from now on, if it has none yet.
    pub(crate) fn mark_here(&mut self, number: usize) {
        let Some(node) = self.nodes.get(number) else {
            return;
        };
        let procedure = node.key.procedure;
        if !self.may_mark(procedure, &node.state) {
            return;
        }
        let held = u8::try_from(node.state.items().len()).unwrap_or(NO_MARK);
        if let Some(procedure) = self.procedures.get_mut(procedure) {
            procedure.mark = Some(held);
        }
    }

    /// The stack of a procedure. How much it may hold isn't known before all is found.
    pub(crate) fn stack_of(&self, procedure: usize) -> Stack {
        let setting = Setting {
            rules: self.rules(),
            is_whole: self.is_fourth(),
            is_main: procedure == 0,
            base: self.base_of(procedure),
            entered: self.pairs_at_entry(procedure),
        };
        Stack {
            setting,
            region: self.configuration.region,
            need: u16::MAX,
            main_need: u16::MAX,
            mark: self.mark_of(procedure),
        }
    }
}

/// Whether SP stands where the items end.
fn is_located(state: &Abs) -> bool {
    state.core().stack_set && state.summary().aside().is_none()
}

/// The base of main's stack: by the rules of versions 1 and 2 none is said.
pub(crate) fn main_base(rules: Rules, region: Region) -> u16 {
    match rules {
        Rules::Simple => 0,
        Rules::Extended => region.last.saturating_add(1),
    }
}

/// Whether an address is so many bytes below a base that SP may be set to it.
fn is_below(base: u32, address: u16) -> bool {
    u32::from(address) <= base && base.saturating_sub(u32::from(address)) <= ROOM
}

/// Whether SP may be set to an address: it is the procedure's own, or main's.
pub(crate) fn is_settable(stack: Stack, address: u16) -> bool {
    let is_own = match stack.setting.known_base() {
        Some(base) => is_below(u32::from(base), address),
        None => false,
    };
    is_own || is_below(u32::from(stack.region.last).saturating_add(1), address)
}
