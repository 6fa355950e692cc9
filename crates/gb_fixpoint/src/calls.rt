//! Calls and dispatches: procedures are found or made, entered, and resumed behind.

use crate::contexts::Context;
use crate::probing::Arrival;
use crate::types::{CallSite, Run, RunProcedure};
use gb_joining::cause::Cause;
use gb_joining::code_point::CodePoint;
use gb_joining::gb_verify::{Abs, Core, Range, Resumed, Rules};
use gb_joining::keys::{ControllerKey, KnownRegisters, NodeKey, ProcedureKey};
use gb_joining::register_set::RegisterSet;
use gb_joining::stop::RunStop;
use std::collections::BTreeSet;
use std::mem;

impl<'a> Run<'a> {
    /// A node calls a target, or is interrupted by it, from a state with the return word on the stack, and goes on at
    /// an address behind it.
    pub(crate) fn call(
        &mut self,
        number: usize,
        caller: &mut Abs,
        target: u16,
        back: u16,
        is_handler: bool,
    ) -> Result<(), RunStop> {
        let Some(node) = self.nodes.get(number) else {
            return Ok(());
        };
        let procedure = node.key.procedure;
        let point = CodePoint::of(self.rom, &caller.core().ctl, target);
        if self.is_inlined(point) {
            self.returns.insert(back)?;
            return self.flow(number, target, caller);
        }
        self.ask_callee(procedure, caller, point)?;
        let context = self.context(procedure, caller, point);
        let mut entered = self.entered(context.taken, caller);
        self.settle(&mut entered);
        self.offer_fills(&mut entered, target);
        let cells = self.number_entry_cells(point, entered.cells())?;
        let key = ProcedureKey {
            has_all_facts: self.has_facts() && self.claims_all(&entered),
            ..self.procedure_key(entered.core(), point, is_handler, cells, context)
        };
        if let Some(probed) = &mut self.probed {
            probed.push(Arrival::Procedure(key))?;
            return self.go_behind_probed(number, point, caller, back);
        }
        let callee = self.procedure_with(key)?;
        self.link(number, procedure, callee, target)?;
        if is_handler {
            self.lower_at_handler(&mut entered)?;
        }
        self.offer_bases(callee, &mut entered, target);
        self.name_places(&mut entered, target);
        self.arrive(Some(number), NodeKey::of_entry(callee, point), &entered)?;
        self.inherit_ranges(procedure, callee)?;
        self.go_behind(number, callee, caller, back)
    }

    /// A node goes on at an address behind a callee that has returned.
    pub(crate) fn go_behind(
        &mut self,
        number: usize,
        callee: usize,
        caller: &Abs,
        back: u16,
    ) -> Result<(), RunStop> {
        let Some(node) = self.nodes.get(number) else {
            return Ok(());
        };
        match self.resumed(node.key.procedure, callee, caller) {
            Some(resumed) => self.go_on_with(number, back, resumed),
            None => Ok(()),
        }
    }

    /// A node goes on with what is left by a callee.
    fn go_on_with(&mut self, number: usize, back: u16, resumed: Resumed) -> Result<(), RunStop> {
        match resumed {
            Resumed::States(mut state) => self.flow(number, back, &mut state),
            Resumed::Nothing | Resumed::TooDeep => Ok(()),
        }
    }

    /// The key of the procedure that begins at a target in a state, with the number of the values of its key cells.
    pub(crate) fn procedure_key(
        &self,
        core: &Core,
        target: CodePoint,
        is_handler: bool,
        cells: usize,
        context: Context,
    ) -> ProcedureKey {
        let is_flat = self.configuration.flat.contains(&target);
        let registers = match self.configuration.parted.get(&target) {
            Some(registers) => *registers,
            None => RegisterSet::empty(),
        };
        ProcedureKey {
            target: target.address,
            bank: target.bank,
            is_handler,
            ime: (core.ime.off, core.ime.pending, core.ime.on),
            bound: core.bound,
            controller: if self.configuration.is_by_controller(target) {
                Some(ControllerKey::of(&core.ctl))
            } else {
                None
            },
            ie: if is_handler {
                (0, 0)
            } else {
                (core.ie.lo, core.ie.hi)
            },
            registers: KnownRegisters::of(&core.registers, &registers),
            cells: if is_flat { 0 } else { cells },
            base: context.base,
            taken: context.taken,
            has_all_facts: false,
        }
    }

    /// The procedure with a key, which is made where there is none.
    fn procedure_with(&mut self, key: ProcedureKey) -> Result<usize, RunStop> {
        if let Some(number) = self.procedure_index.get(&key) {
            return Ok(*number);
        }
        let number = self.procedures.len();
        if number >= self.configuration.edition.procedures() {
            return Err(RunStop::Crowded);
        }
        self.procedure_index.insert(key, number)?;
        self.procedures.push(RunProcedure::new(self.alloc, key))?;
        Ok(number)
    }

    /// A node becomes a site of a callee. A call that closes a cycle of procedures is a failure.
    pub(crate) fn link(
        &mut self,
        number: usize,
        caller: usize,
        callee: usize,
        target: u16,
    ) -> Result<(), RunStop> {
        if let Some(called) = self.procedures.get_mut(callee) {
            called.sites.insert(number)?;
        }
        let call = CallSite { caller, callee };
        if self.calls.insert(call)? {
            if let Some(calling) = self.procedures.get_mut(caller) {
                calling.callees.insert(callee)?;
            }
            if self.reaches(callee, caller)? {
                self.cyclic.insert(call)?;
            }
        }
        if self.cyclic.contains(&call) {
            let cause = Cause::Recursion { target };
            return Err(Run::failure(number, cause, RegisterSet::empty()));
        }
        Ok(())
    }

    /// Whether a procedure is another one, or calls it, itself or by others.
    fn reaches(&self, from: usize, to: usize) -> Result<bool, RunStop> {
        let mut seen = BTreeSet::new(self.alloc);
        seen.insert(from)?;
        let mut open = vec![in self.alloc; from]?;
        for _ in 0..=self.procedures.len() {
            let Some(procedure) = open.pop() else {
                return Ok(false);
            };
            if procedure == to {
                return Ok(true);
            }
            if let Some(calling) = self.procedures.get(procedure) {
                for callee in &calling.callees {
                    if seen.insert(*callee)? {
                        open.push(*callee)?;
                    }
                }
            }
        }
        Ok(false)
    }

    /// What a callee may write its caller may write too; by the rules of version 3 main may write everywhere.
    pub(crate) fn inherit_ranges(&mut self, caller: usize, callee: usize) -> Result<(), RunStop> {
        if caller == 0 && self.rules() == Rules::Extended {
            return Ok(());
        }
        let Some(called) = self.procedures.get(callee) else {
            return Ok(());
        };
        let ranges = called.ranges.copied();
        for range in ranges.as_slice() {
            self.record_written(caller, *range)?;
        }
        Ok(())
    }

    /// A procedure may write a range. Where its ranges grew, its callers take them over.
    pub(crate) fn record_written(&mut self, procedure: usize, range: Range) -> Result<(), RunStop> {
        let region = self.configuration.region;
        let Some(writing) = self.procedures.get_mut(procedure) else {
            return Ok(());
        };
        if writing.ranges.add(range, region) {
            self.enqueue_sites(procedure)?;
        }
        Ok(())
    }

    /// All callers of a procedure wait for their turns.
    pub(crate) fn enqueue_sites(&mut self, procedure: usize) -> Result<(), RunStop> {
        let Some(called) = self.procedures.get_mut(procedure) else {
            return Ok(());
        };
        let is_handler = called.key.is_handler;
        let sites = mem::replace(&mut called.sites, BTreeSet::new(self.alloc));
        for site in &sites {
            if is_handler {
                self.enqueue_behind(*site, procedure)?;
            } else {
                self.enqueue(*site)?;
            }
        }
        if let Some(called) = self.procedures.get_mut(procedure) {
            called.sites = sites;
        }
        Ok(())
    }
}
