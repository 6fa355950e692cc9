//! Levels: how many of its facts a run claims in a state, and which cells these make needless.
//!
//! A cell is an exception from facts, so that a byte may leave its fact for some instructions: it stays until it is within the fact
//! again. Where such a cell is lost, or a store breaks a fact, the run goes on as if the fact held, and records what it lacks.

use crate::types::Run;
use arrayvec::ArrayVec;
use gb_joining::claims::{fills_at, first_of, is_beyond_fill, pointers_of, raised, with_level};
use gb_joining::covering::is_covered;
use gb_joining::filling::{common_fills, fix_fills, offer_fills};
use gb_joining::gb_domain::StridedInterval;
use gb_joining::gb_domain::interval::{lies_in, low_bits_of};
use gb_joining::gb_domain::low_bits::none;
use gb_joining::gb_domain::summary::{Fact, Fill, Summary};
use gb_joining::gb_domain::values::interval_of;
use gb_joining::gb_ops::op::Op;
use gb_joining::gb_ram_bounds::addresses::is_in;
use gb_joining::gb_ram_bounds::cells::has_cell;
use gb_joining::gb_ram_bounds::covering::gives_facts;
use gb_joining::gb_ram_bounds::{AddressSet, Pointers};
use gb_joining::gb_verify::{Abs, AbsWrite, Bounds, Cell, Span, Successors, WordPair, any};
use gb_joining::limits::FILL_GROWTHS;
use gb_joining::stop::RunStop;
use gb_joining::tracking::keep_tracked;
use std::alloc::{AllocError, Global};

/// The most cells of a state.
const CELLS: usize = 64;

impl<'a> Run<'a> {
    /// Whether the run has facts.
    pub fn has_facts(&self) -> bool {
        self.is_fourth() && !self.configuration.facts.is_empty()
    }

    /// Whether a state claims all facts but those that come last.
    pub fn claims_all(&self, state: &Abs) -> bool {
        usize::from(state.summary().level()) >= self.configuration.early_facts
    }

    /// The state keeps the cells that it is to keep, and claims the facts that it can.
    pub fn settle(&self, state: &mut Abs) {
        if !self.has_facts() {
            keep_tracked(state, self.tracked.as_slice());
            return;
        }
        let level = raised(self.configuration.facts.as_slice(), state);
        let is_full = usize::from(level) >= self.configuration.early_facts;
        let fills = fills_at(state, is_full);
        let cells = self.needed_cells(level, fills.as_slice(), state.cells());
        let summary = with_level(state.summary(), level, fills);
        state.set_cells(cells);
        state.set_summary(summary);
    }

    /// The cells that say more than facts and fills do, or something else.
    fn needed_cells(&self, level: u16, fills: &[Fill], cells: &[Cell]) -> ArrayVec<Cell, 64> {
        let mut needed = ArrayVec::new();
        for cell in cells {
            if fills.iter().any(|fill| is_beyond_fill(fill, cell)) || self.is_needed(level, cell) {
                let _ = needed.try_push(*cell);
            }
        }
        needed
    }

    /// Whether a cell is beyond its fact, or is tracked and says more.
    fn is_needed(&self, level: u16, cell: &Cell) -> bool {
        let is_tracked = self.tracked.binary_search(&cell.address).is_ok();
        match self.fact_at(level, cell.address) {
            Some(fact) => {
                let value = interval_of(cell.val);
                let says_more = cell.val.origin.is_some() || !lies_in(fact, value);
                !lies_in(value, fact) || is_tracked && says_more
            }
            None => is_tracked && cell.val != any(),
        }
    }

    /// What the fact says of a byte, if it is below the level.
    fn fact_at(&self, level: u16, address: u16) -> Option<StridedInterval> {
        let number = self.fact_news.number_at(address)?;
        if number >= usize::from(level) {
            return None;
        }
        Some(self.configuration.facts.get(number)?.value)
    }

    /// A cell of one state is none of a state above it: what it says beyond its fact is recorded.
    pub fn give_back(&mut self, from: &[Cell], kept: &[Cell], level: u16) -> Result<(), RunStop> {
        for cell in from {
            let value = interval_of(cell.val);
            if !has_cell(kept, cell.address)
                && let Some(fact) = self.fact_at(level, cell.address)
                && !lies_in(value, fact)
            {
                self.fact_news.grow(cell.address, value)?;
            }
        }
        Ok(())
    }

    /// What the store of a node's instruction breaks of the facts that the node claims is recorded.
    pub fn record_broken(
        &mut self,
        number: usize,
        op: Op,
        ways: &Successors<'_>,
    ) -> Result<(), RunStop> {
        let Some(node) = self.nodes.get(number) else {
            return Ok(());
        };
        let level = node.state.summary().level();
        let low = match op.pointer() {
            Some(pointer) => {
                low_bits_of(interval_of(node.state.core().registers.get(pointer.low())))
            }
            None => none(),
        };
        let Some(taken) = &ways.taken else {
            return Ok(());
        };
        match taken.write {
            AbsWrite::Byte(span, val) if level > 0 => {
                let addresses = AddressSet {
                    first: span.first,
                    last: span.last,
                    low,
                };
                if span.is_one() && self.has_room(number, span.first) {
                    return Ok(());
                }
                self.break_facts(level, addresses, interval_of(val))
            }
            AbsWrite::Word(address, low, high) if level > 0 => {
                let behind = address.wrapping_add(1);
                self.break_one(level, address, interval_of(low))?;
                self.break_one(level, behind, interval_of(high))
            }
            _ => Ok(()),
        }
    }

    /// Whether a byte that a node's instruction stores to is a cell behind it.
    fn has_room(&self, number: usize, address: u16) -> bool {
        match self.nodes.get(number) {
            Some(node) => {
                let cells = node.state.cells();
                cells.len() < CELLS || has_cell(cells, address)
            }
            None => true,
        }
    }

    /// A value is stored to one of these addresses.
    fn break_facts(
        &mut self,
        level: u16,
        addresses: AddressSet,
        value: StridedInterval,
    ) -> Result<(), RunStop> {
        for address in addresses.first..=addresses.last {
            if is_in(addresses, address) {
                self.break_one(level, address, value)?;
            }
        }
        Ok(())
    }

    /// A value may be stored to an address.
    fn break_one(
        &mut self,
        level: u16,
        address: u16,
        value: StridedInterval,
    ) -> Result<(), RunStop> {
        if let Some(fact) = self.fact_at(level, address)
            && !lies_in(value, fact)
        {
            self.fact_news.grow(address, value)?;
        }
        Ok(())
    }

    /// The bytes of RAM are recorded that are read.
    pub fn record_bytes_read(&mut self, number: usize, op: Op, span: Span) -> Result<(), RunStop> {
        let Some(node) = self.nodes.get(number) else {
            return Ok(());
        };
        let low = match op.pointer() {
            Some(pointer) => {
                low_bits_of(interval_of(node.state.core().registers.get(pointer.low())))
            }
            None => none(),
        };
        let is_apart = node.key.procedure != 0 && !node.state.core().ime.on;
        if self.is_fourth() && span.first >= 0xC000 {
            let addresses = AddressSet {
                first: span.first,
                last: span.last,
                low,
            };
            self.fact_news.record_read(addresses, is_apart)?;
        }
        Ok(())
    }
}

impl<'a> Run<'a> {
    /// A state goes on from a node as if the store had broken no fact of it: what it breaks was recorded.
    pub fn hold_level(&self, number: usize, state: &mut Abs) {
        let Some(node) = self.nodes.get(number) else {
            return;
        };
        let level = node.state.summary().level();
        if level > state.summary().level() {
            let fills = fills_at(state, false);
            let summary = with_level(state.summary(), level, fills);
            state.set_summary(summary);
        }
    }

    /// A state without the cells that are beyond their facts, and that a state above it doesn't have: what they say is recorded.
    pub fn given_back(&mut self, state: &Abs, above: &Abs) -> Result<Abs, RunStop> {
        let level = state.summary().level().min(above.summary().level());
        self.give_back(state.cells(), above.cells(), level)?;
        let mut left = state.copied();
        let mut cells = ArrayVec::new();
        for cell in state.cells() {
            let is_lost = match self.fact_at(level, cell.address) {
                Some(fact) => {
                    !lies_in(interval_of(cell.val), fact) && !has_cell(above.cells(), cell.address)
                }
                None => false,
            };
            if !is_lost {
                let _ = cells.try_push(*cell);
            }
        }
        left.set_cells(cells);
        Ok(left)
    }

    /// A state that was joined from two others gets the fills that both have, and what is lost of cells is recorded.
    pub fn join_facts(
        &mut self,
        old: &Abs,
        added: &Abs,
        joined: &mut Abs,
        is_early: bool,
    ) -> Result<(), RunStop> {
        let level = joined.summary().level();
        self.give_back(old.cells(), joined.cells(), level)?;
        self.give_back(added.cells(), joined.cells(), level)?;
        if !old.summary().fills().is_empty() || !added.summary().fills().is_empty() {
            let facts = self.configuration.facts.as_slice();
            let fills = common_fills(facts, old, added, joined, is_early);
            let summary = with_level(joined.summary(), level, fills);
            joined.set_summary(summary);
        }
        Ok(())
    }

    /// A node grows to hold a state, in a run with facts.
    #[inline(never)]
    pub fn grow_with_facts(&mut self, number: usize, state: &Abs) -> Result<(), RunStop> {
        let Some(node) = self.nodes.get(number) else {
            return Ok(());
        };
        let old = node.state.copied();
        let is_early = node.growths < FILL_GROWTHS;
        let state = self.given_back(state, &old)?;
        if is_covered(&self.basis(), &state, &old) {
            return Ok(());
        }
        self.grow_to_hold(number, &state)?;
        let Some(node) = self.nodes.get(number) else {
            return Ok(());
        };
        let mut joined = node.state.copied();
        self.join_facts(&old, &state, &mut joined, is_early)?;
        if let Some(node) = self.nodes.get_mut(number) {
            node.state = joined;
        }
        Ok(())
    }
}

impl<'a> Run<'a> {
    /// The facts that hold in no state of main, where some of those hold that no state claims: RAM isn't cleared there. At most so many
    /// nodes are asked.
    pub fn never_held(&self, alloc: Global, most: usize) -> Result<Vec<Fact>, AllocError> {
        let mut never = Vec::new(alloc);
        let top = self.top_level();
        let Some(open) = self.configuration.facts.get(usize::from(top)..) else {
            return Ok(never);
        };
        if !self.is_fourth() {
            return Ok(never);
        }
        for fact in open {
            if !self.is_held_somewhere(top, fact, most) {
                never.push(*fact)?;
            }
        }
        if never.len() == open.len() {
            never.clear();
        }
        Ok(never)
    }

    /// Whether the run went past no failure and no wish.
    pub fn has_met_nothing(&self) -> bool {
        self.passed.is_empty() && self.wishes.is_empty() && self.failures.is_empty()
    }

    /// The highest level of a state of main.
    fn top_level(&self) -> u16 {
        let mut top = 0;
        for node in &self.nodes {
            if node.key.procedure == 0 {
                top = top.max(node.state.summary().level());
            }
        }
        top
    }

    /// Whether a fact holds in a state of main with the highest level.
    fn is_held_somewhere(&self, top: u16, fact: &Fact, most: usize) -> bool {
        let mut asked = 0usize;
        for node in &self.nodes {
            if node.key.procedure != 0 || node.state.summary().level() != top || asked >= most {
                continue;
            }
            asked = asked.saturating_add(1);
            let state = &node.state;
            let known = first_of(self.configuration.facts.as_slice(), top);
            let (cells, fills) = (state.cells(), state.summary().fills());
            if gives_facts(known, cells, fills, &pointers_of(state), cells, &[*fact]) {
                return true;
            }
        }
        false
    }
}

impl<'a> Run<'a> {
    /// Whether some byte is beyond its fact, so that the run claims what doesn't hold.
    pub fn has_broken_facts(&self) -> bool {
        !self.fact_news.grown.is_empty()
    }
}

impl<'a> Run<'a> {
    /// Fills that say nothing yet are offered to a state that arrives before a store through a pointer.
    pub fn offer_fills(&self, state: &mut Abs, address: u16) {
        if self.has_facts() && !self.claims_all(state) {
            offer_fills(
                &self.program(),
                self.rom,
                self.configuration.region,
                state,
                address,
            );
        }
    }

    /// The fills of a state in which a procedure returns have no end: its callers see what lies in its ranges alone.
    pub fn fix_fills(&self, state: &mut Abs) {
        if self.has_facts() && !state.summary().fills().is_empty() {
            fix_fills(state);
        }
    }
}
