//! States flow to the nodes of their keys.

use crate::probing::Arrival;
use crate::types::{CellValue, Edge, Run, RunNode, Spot};
use arrayvec::ArrayVec;
use gb_joining::basis::Basis;
use gb_joining::code_point::CodePoint;
use gb_joining::configuration::{EntryCells, TargetPlace};
use gb_joining::covering::is_covered;
use gb_joining::gb_domain::interval::{bounds, cut};
use gb_joining::gb_domain::values::interval_of;
use gb_joining::gb_ops::op::Register;
use gb_joining::gb_verify::{Abs, Cell, Core, Rules, States, Val, read_in, reduced};
use gb_joining::joining::val_of;
use gb_joining::keys::{ControllerKey, KnownRegisters, NodeKey};
use gb_joining::limits::{
    CODE_AHEAD, GROWTHS, HEAD_GROWTHS, PAGES, PAIR_GROWTHS, SIMPLE_GROWTHS, SIMPLE_HEAD_GROWTHS,
};
use gb_joining::register_set::{REGISTERS, RegisterSet};
use gb_joining::shadowing::is_bank_shadowed;
use gb_joining::steps::{Growth, link_in};
use gb_joining::stop::RunStop;
use std::mem;

impl<'a> Run<'a> {
    /// A state goes on from a node to an address of the same procedure.
    pub(crate) fn flow(&mut self, from: usize, to: u16, state: &mut Abs) -> Result<(), RunStop> {
        let Some(node) = self.nodes.get(from) else {
            return Ok(());
        };
        let (procedure, before) = (node.key.procedure, node.key.point());
        let behind = CodePoint::of(self.rom, &state.core().ctl, to);
        self.record_edge(procedure, before, behind)?;
        self.flow_in(from, procedure, behind, state)
    }

    /// A state goes on from a node to a point of a procedure's code.
    pub(crate) fn flow_in(
        &mut self,
        from: usize,
        procedure: usize,
        point: CodePoint,
        state: &mut Abs,
    ) -> Result<(), RunStop> {
        self.settle(state);
        self.offer_fills(state, point.address);
        self.offer_bases(procedure, state, point.address);
        self.name_places(state, point.address);
        self.give_way(state, point.address);
        let place = TargetPlace {
            target: self.target(procedure),
            point,
        };
        match self.split_register(place, state.core()) {
            Some(register) => self.arrive_by_value(from, procedure, place, register, state),
            None => self.arrive_peeled(from, procedure, place, state),
        }
    }

    /// A state arrives value by value of a register. Out of line, as the functions below: room for states is cleared only then.
    #[inline(never)]
    fn arrive_by_value(
        &mut self,
        from: usize,
        procedure: usize,
        place: TargetPlace,
        register: Register,
        state: &Abs,
    ) -> Result<(), RunStop> {
        let val = state.core().registers.get(register);
        for value in val.lo..=val.hi {
            let single = self.with_bounds(procedure, register, value, value, state);
            if let Some(single) = single {
                self.arrive_at(from, procedure, place, &single)?;
            }
        }
        Ok(())
    }

    /// A state arrives: where a counter that is told apart may be 0 and more, in two parts.
    fn arrive_peeled(
        &mut self,
        from: usize,
        procedure: usize,
        place: TargetPlace,
        state: &Abs,
    ) -> Result<(), RunStop> {
        match self.peeled_register(place, state.core()) {
            Some(register) => self.arrive_in_two(from, procedure, place, register, state),
            None => self.arrive_compared(from, procedure, place, state),
        }
    }

    /// A state arrives in two parts: those in which a register is 0, and those in which it isn't.
    #[inline(never)]
    fn arrive_in_two(
        &mut self,
        from: usize,
        procedure: usize,
        place: TargetPlace,
        register: Register,
        state: &Abs,
    ) -> Result<(), RunStop> {
        let last = state.core().registers.get(register).hi;
        for (lo, hi) in [(0, 0), (1, last)] {
            if let Some(part) = self.with_bounds(procedure, register, lo, hi, state) {
                self.arrive_at(from, procedure, place, &part)?;
            }
        }
        Ok(())
    }

    /// The counter that is told apart at a place and may be 0 and more.
    fn peeled_register(&self, place: TargetPlace, core: &Core) -> Option<Register> {
        let peeled = self.configuration.peeled.get(&place)?;
        for register in REGISTERS {
            let val = core.registers.get(register);
            if peeled.contains(register) && val.lo == 0 && val.hi > 0 {
                return Some(register);
            }
        }
        None
    }

    /// A state of a procedure in which a register's values are cut to bounds; none where nothing is meant then.
    pub(crate) fn with_bounds(
        &self,
        procedure: usize,
        register: Register,
        lo: u8,
        hi: u8,
        state: &Abs,
    ) -> Option<Abs> {
        let mut core = *state.core();
        let val = core.registers.get(register);
        let interval = cut(interval_of(val), bounds(lo, hi))?;
        core.registers.set(register, val_of(interval, val.origin));
        let entered = self.pairs_at_entry(procedure);
        let narrowed = States {
            core: &core,
            ..States::of(state)
        };
        let read = read_in(&self.program(), &narrowed, &state.relations().pairs);
        let product = reduced(self.rules(), &entered, &read, &core, state.relations())?;
        let mut single = state.with_core(product.core);
        single.set_relations(product.relations);
        Some(single)
    }

    /// A way on is recorded, and its target as a loop's head if it leads backward.
    fn record_edge(
        &mut self,
        procedure: usize,
        from: CodePoint,
        to: CodePoint,
    ) -> Result<(), RunStop> {
        let edge = Edge {
            procedure,
            from,
            to,
        };
        let is_backward = to.address < from.address
            || (to == from && self.rules() == Rules::Simple);
        if self.edges.insert(edge)? && is_backward {
            self.heads.insert(Spot {
                procedure,
                point: to,
            })?;
        }
        Ok(())
    }

    /// The register that is taken value by value on arrival.
    fn split_register(&self, place: TargetPlace, core: &Core) -> Option<Register> {
        if let Some(registers) = self.configuration.split.get(&place)
            && let Some(register) = narrowest(registers, core, u8::MAX)
        {
            return Some(register);
        }
        if self.configuration.paged.contains(&place) {
            return narrowest(&RegisterSet::of(&[Register::H]), core, PAGES - 1).or(narrowest(
                &RegisterSet::of(&[Register::D]),
                core,
                PAGES - 1,
            ));
        }
        None
    }

    /// Whether all that is known of registers is part of the key.
    fn is_keyed(&self, place: TargetPlace, core: &Core) -> bool {
        core.bound != 0
            || self.configuration.keyed.contains(&place)
            || (self.configuration.copied.contains(&place)
                && (self.is_at_kept(core.registers.d, core.registers.e)
                    || self.is_at_kept(core.registers.h, core.registers.l)))
    }

    /// Whether a pointer is known and at a byte that is kept, or soon after one: the bytes of code that follow will be kept.
    fn is_at_kept(&self, high: Val, low: Val) -> bool {
        let address = u16::from_be_bytes([high.lo, low.lo]);
        high.lo == high.hi
            && low.lo == low.hi
            && self.configuration.tracked.iter().any(|kept| *kept <= address
                && address.saturating_sub(*kept) < u16::from(CODE_AHEAD))
    }

    /// The registers whose known values are part of the key, and the carry where all are and it is told apart.
    fn key_registers(&self, place: TargetPlace, core: &Core) -> KnownRegisters {
        let values = &core.registers;
        if self.is_keyed(place, core) {
            let known = KnownRegisters::of(values, &RegisterSet::all());
            return if self.configuration.carried.contains(&place) {
                known.with_carry(core.flags.carry)
            } else {
                known
            };
        }
        let mut wanted = match self.configuration.counted.get(&place) {
            Some(registers) => *registers,
            None => RegisterSet::empty(),
        };
        if self.configuration.paged.contains(&place) {
            wanted = wanted.union(&RegisterSet::of(&[Register::D, Register::H]));
        }
        match self.configuration.peeled.get(&place) {
            Some(peeled) => KnownRegisters::with_ends(values, &wanted, peeled),
            None => KnownRegisters::of(values, &wanted),
        }
    }

    /// The lowest address of a known stack is recorded.
    fn record_depth(&mut self, procedure: usize, state: &Abs) {
        let base = self.base_of(procedure);
        if base != 0
            && state.core().stack_set
            && let Ok(bytes) = u16::try_from(state.items().len())
        {
            self.lowest = self.lowest.min(base.saturating_sub(bytes));
        }
    }

    /// A state arrives, told apart as the configuration says.
    pub(crate) fn arrive_at(
        &mut self,
        from: usize,
        procedure: usize,
        place: TargetPlace,
        state: &Abs,
    ) -> Result<(), RunStop> {
        let cells = self.number_values(None, state.cells())?;
        let is_keyed = self.is_keyed(place, state.core());
        let counted = self.configuration.items_at(place);
        let words = self.number_words(state, is_keyed, counted)?;
        self.record_depth(procedure, state);
        let core = state.core();
        let key = NodeKey::of_state(
            procedure,
            place.point,
            state,
            self.controller_key(procedure, state),
            self.with_answer(place, state, self.key_registers(place, core)),
            cells,
            words,
        );
        self.arrive(Some(from), key, state)
    }

    /// What of the controller tells a procedure's nodes apart: by the rules of version 4 no bank that isn't known, and none that an
    /// address of RAM shadows, which tells more, unless it was asked for.
    fn controller_key(&self, procedure: usize, state: &Abs) -> ControllerKey {
        let key = ControllerKey::of(&state.core().ctl);
        if !self.is_fourth() {
            return key;
        }
        let is_asked = self.configuration.banked.contains(&self.target(procedure));
        if is_bank_shadowed(state) && !is_asked {
            key.of_known_banks().without_bank()
        } else {
            key.of_known_banks()
        }
    }

    /// The key cells that have one value alone, and those of a procedure's own that have.
    fn cell_values(&self, target: Option<CodePoint>, cells: &[Cell]) -> ArrayVec<CellValue, 64> {
        let mut values = ArrayVec::new();
        for cell in cells {
            let address = cell.address;
            let is_part = self.is_in_key(target, address);
            if is_part && cell.val.lo == cell.val.hi {
                let _ = values.try_push(CellValue {
                    address,
                    value: cell.val.lo,
                });
            }
        }
        values
    }

    /// Whether a cell is part of the keys of nodes, or of those of the procedures that begin at a target.
    fn is_in_key(&self, target: Option<CodePoint>, cell: u16) -> bool {
        match target {
            Some(target) => {
                self.configuration.entry_cells(target).contains(cell)
                    || self.configuration.is_key_at(target, cell)
            }
            None => self.configuration.key_cells.contains(&cell),
        }
    }

    /// Whether the procedures that begin at a target are parted by cells of their own.
    fn has_own(&self, target: Option<CodePoint>) -> bool {
        match target {
            Some(target) => self.configuration.entry_cells(target) != EntryCells::default(),
            None => false,
        }
    }

    /// The number of the values of key cells and a procedure's own, if they had them before: 0 where none is known.
    fn find_values(&self, target: Option<CodePoint>, cells: &[Cell]) -> Option<usize> {
        if self.configuration.key_cells.is_empty() && !self.has_own(target) {
            return Some(0);
        }
        let values = self.cell_values(target, cells);
        if values.is_empty() {
            return Some(0);
        }
        self.cell_index.get(values.as_slice()).copied()
    }

    /// The number of the values of key cells and a procedure's own.
    fn number_values(
        &mut self,
        target: Option<CodePoint>,
        cells: &[Cell],
    ) -> Result<usize, RunStop> {
        if let Some(number) = self.find_values(target, cells) {
            return Ok(number);
        }
        let values = self.cell_values(target, cells);
        let number = self.cell_index.len().saturating_add(1);
        let key = Vec::from_slice(self.alloc, values.as_slice())?;
        self.cell_index.insert(key, number)?;
        Ok(number)
    }

    /// The number of the values by which the procedures of a target are parted, if they had them before.
    pub(crate) fn find_entry_cells(&self, target: CodePoint, cells: &[Cell]) -> Option<usize> {
        self.find_values(Some(target), cells)
    }

    /// The number of the values by which the procedures of a target are parted.
    pub(crate) fn number_entry_cells(
        &mut self,
        target: CodePoint,
        cells: &[Cell],
    ) -> Result<usize, RunStop> {
        self.number_values(Some(target), cells)
    }

    /// A state arrives at the node of a key.
    pub(crate) fn arrive(
        &mut self,
        via: Option<usize>,
        key: NodeKey,
        state: &Abs,
    ) -> Result<(), RunStop> {
        if let Some(probed) = &mut self.probed {
            probed.push(Arrival::Node(key))?;
            return Ok(());
        }
        if self.is_fourth() {
            self.record_shadows(state)?;
            self.record_bases(key.procedure, state);
        }
        match self.node_index.get(&key) {
            Some(number) => {
                let number = *number;
                self.grow(number, state)
            }
            None => self.add_node(via, key, state),
        }
    }

    /// A state is the first one of a key.
    #[inline(never)]
    fn add_node(&mut self, via: Option<usize>, key: NodeKey, state: &Abs) -> Result<(), RunStop> {
        let number = self.nodes.len();
        self.node_index.insert(key, number)?;
        let spot = Spot {
            procedure: key.procedure,
            point: key.point(),
        };
        self.at.entry(spot)?.or_default().push(number)?;
        self.nodes.push(RunNode {
            key,
            state: state.copied(),
            growths: 0,
            via,
            is_queued: false,
        })?;
        if let Some(procedure) = self.procedures.get_mut(key.procedure) {
            procedure.nodes.push(number)?;
            if key.is_entry {
                procedure.entry = Some(number);
            }
        }
        self.enqueue(number)
    }

    /// A node's state becomes one above it and another one.
    pub(crate) fn grow(&mut self, number: usize, state: &Abs) -> Result<(), RunStop> {
        let Some(node) = self.nodes.get(number) else {
            return Ok(());
        };
        if is_covered(&self.basis(), state, &node.state) {
            return Ok(());
        }
        if self.has_facts() {
            return self.grow_with_facts(number, state);
        }
        self.grow_to_hold(number, state)
    }

    /// Lets a node grow to hold a state that it doesn't hold yet.
    #[inline(never)]
    pub(crate) fn grow_to_hold(&mut self, number: usize, state: &Abs) -> Result<(), RunStop> {
        let Some(node) = self.nodes.get(number) else {
            return Ok(());
        };
        let (procedure, is_entry) = (node.key.procedure, node.key.is_entry);
        let growth = self.growth_of(node);
        let before = self.pairs_at_entry(procedure);
        if growth == Growth::Linked {
            self.link_to(number, state);
        } else {
            self.widen(number, growth, state)?;
        }
        self.name_places_at(number);
        if let Some(node) = self.nodes.get_mut(number) {
            node.growths = node.growths.saturating_add(1);
        }
        if is_entry {
            self.enqueue_based(procedure, before)?;
        }
        self.enqueue(number)
    }

    /// A node's state becomes its join with another one, in place. The facts are taken out meanwhile, so that they and the nodes are
    /// not lent by one owner.
    fn link_to(&mut self, number: usize, state: &Abs) {
        let facts = mem::replace(&mut self.configuration.facts, Vec::new(self.alloc));
        let edition = self.configuration.edition;
        let basis = Basis::of(edition, self.rom.kind(), facts.as_slice());
        if let Some(node) = self.nodes.get_mut(number) {
            link_in(&basis, &mut node.state, state);
        }
        self.configuration.facts = facts;
    }

    /// A node's state is widened.
    #[inline(never)]
    fn widen(&mut self, number: usize, growth: Growth, state: &Abs) -> Result<(), RunStop> {
        let Some(node) = self.nodes.get(number) else {
            return Ok(());
        };
        let mut grown = self
            .widening
            .grown(&self.basis(), growth, &node.state, state);
        self.hasten(number, &mut grown)?;
        if let Some(node) = self.nodes.get_mut(number) {
            node.state = grown;
        }
        Ok(())
    }

    /// How a node grows the next time.
    fn growth_of(&self, node: &RunNode) -> Growth {
        if node.growths >= PAIR_GROWTHS {
            Growth::WidenedWithoutPairs
        } else if node.growths >= self.patience(node.key) {
            Growth::Widened
        } else {
            Growth::Linked
        }
    }

    /// Whether a node stands at the head of a loop.
    fn is_head(&self, key: NodeKey) -> bool {
        let spot = Spot {
            procedure: key.procedure,
            point: key.point(),
        };
        self.heads.contains(&spot)
    }

    /// How often a node grows by joins alone.
    fn patience(&self, key: NodeKey) -> u32 {
        let is_early = key.is_entry || self.is_head(key);
        match (self.rules(), is_early) {
            (Rules::Simple, true) => SIMPLE_HEAD_GROWTHS,
            (Rules::Simple, false) => SIMPLE_GROWTHS,
            (Rules::Extended, true) => HEAD_GROWTHS,
            (Rules::Extended, false) => GROWTHS,
        }
    }
}

/// Of these registers that have more than one value, and at most one more than the width, the one with the fewest.
fn narrowest(registers: &RegisterSet, core: &Core, width: u8) -> Option<Register> {
    let mut least = None;
    let mut found = None;
    for register in &REGISTERS {
        let val = core.registers.get(*register);
        let values = val.hi.saturating_sub(val.lo);
        if registers.contains(*register)
            && 0 < values
            && values <= width
            && least.is_none_or(|fewest| values < fewest)
        {
            least = Some(values);
            found = Some(*register);
        }
    }
    found
}
