//! Links with a base, in a run: where they are offered, and what they are cut to, the bounds in which pairs lay as procedures were
//! entered.

use crate::types::Run;
use gb_joining::bases::{has_bases, may_be_offered, offer_bases, pair_bounds};
use gb_joining::gb_domain::pairs::{ANY_PAIRS, PairBounds};
use gb_joining::gb_ops::op::Op;
use gb_joining::gb_verify::Abs;
use gb_joining::instruction::decoded;
use gb_joining::naming::{give_way, may_be_named, may_give_way, name_places};
use gb_joining::stop::RunStop;

impl<'a> Run<'a> {
    /// Within which bounds the pairs lie as a procedure is entered, as far as its rules know.
    pub fn pairs_at_entry(&self, procedure: usize) -> PairBounds {
        let entry = match self.procedures.get(procedure) {
            Some(entered) if self.is_fourth() => entered.entry,
            _ => None,
        };
        match entry {
            Some(number) => match self.nodes.get(number) {
                Some(node) => pair_bounds(&node.state),
                None => ANY_PAIRS,
            },
            None => ANY_PAIRS,
        }
    }

    /// A state of a procedure gets links with a base, as the instruction at an address asks for them.
    pub(crate) fn offer_bases(&self, procedure: usize, state: &mut Abs, address: u16) {
        if procedure != 0 && self.is_fourth() && may_be_offered(state) {
            let op = match decoded(&self.program(), self.rom, state, address) {
                Ok(row) => Some(row.op),
                Err(_) => None,
            };
            offer_bases(&self.program(), op, state);
        }
    }

    /// The instruction at an address, if the links of a state could name what they read in two ways before it.
    fn named_before(&self, state: &Abs, address: u16) -> Option<Op> {
        if !self.is_fourth() || !may_be_named(self.configuration.region, state) {
            return None;
        }
        match decoded(&self.program(), self.rom, state, address) {
            Ok(row) => Some(row.op),
            Err(_) => None,
        }
    }

    /// The links of a state name what they read as the instruction at an address asks for it.
    pub(crate) fn name_places(&self, state: &mut Abs, address: u16) {
        if let Some(op) = self.named_before(state, address) {
            name_places(self.configuration.region, op, state);
        }
    }

    /// The one byte gives way to a copy of a pair, as the instruction at an address asks for it.
    pub(crate) fn give_way(&self, state: &mut Abs, address: u16) {
        if self.is_fourth()
            && may_give_way(self.configuration.region, state)
            && let Ok(row) = decoded(&self.program(), self.rom, state, address)
        {
            give_way(row.op, state);
        }
    }

    /// The links of a node that grew, which may be new, name what they read as its instruction asks for it.
    pub(crate) fn name_places_at(&mut self, number: usize) {
        let named = match self.nodes.get(number) {
            Some(node) => self.named_before(&node.state, node.key.address),
            None => None,
        };
        let region = self.configuration.region;
        if let Some(op) = named
            && let Some(node) = self.nodes.get_mut(number)
        {
            name_places(region, op, &mut node.state);
        }
    }

    /// A state in which a procedure returns gets the links that its callers are to know.
    pub(crate) fn leave_bases(&self, state: &mut Abs) {
        if self.is_fourth() && has_bases(state) {
            offer_bases(&self.program(), None, state);
        }
    }

    /// Whether states of a procedure have links with a base is recorded.
    pub(crate) fn record_bases(&mut self, procedure: usize, state: &Abs) {
        if has_bases(state)
            && let Some(based) = self.procedures.get_mut(procedure)
        {
            based.has_bases = true;
        }
    }

    /// Pairs lie within other bounds as a procedure is entered: its nodes wait for their turns whose states have links with a base, or
    /// which continue after a call that leaves one.
    pub(crate) fn enqueue_based(
        &mut self,
        procedure: usize,
        before: PairBounds,
    ) -> Result<(), RunStop> {
        if self.pairs_at_entry(procedure) == before {
            return Ok(());
        }
        let based = self.based_nodes(procedure)?;
        for number in &based {
            self.enqueue(*number)?;
        }
        Ok(())
    }

    /// The nodes of a procedure where the bounds count in which pairs lay at its entry.
    fn based_nodes(&self, procedure: usize) -> Result<Vec<usize>, RunStop> {
        let mut based = Vec::new(self.alloc);
        let Some(entered) = self.procedures.get(procedure) else {
            return Ok(based);
        };
        if !entered.has_bases {
            return Ok(based);
        }
        for number in &entered.nodes {
            if let Some(node) = self.nodes.get(*number)
                && has_bases(&node.state)
            {
                based.push(*number)?;
            }
        }
        for callee in &entered.callees {
            self.add_sites(procedure, *callee, &mut based)?;
        }
        Ok(based)
    }

    /// The nodes of a procedure are added that call another one, if that leaves links with a base.
    fn add_sites(
        &self,
        procedure: usize,
        callee: usize,
        based: &mut Vec<usize>,
    ) -> Result<(), RunStop> {
        let Some(called) = self.procedures.get(callee) else {
            return Ok(());
        };
        let leaves_bases = match &called.exit {
            Some(exit) => has_bases(exit),
            None => false,
        };
        if !leaves_bases {
            return Ok(());
        }
        for site in &called.sites {
            if let Some(node) = self.nodes.get(*site)
                && node.key.procedure == procedure
            {
                based.push(*site)?;
            }
        }
        Ok(())
    }
}
