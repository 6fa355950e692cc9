//! Memory cells: which are tracked, and which registers were loaded from them.

use gb_dataflow::code_point::CodePoint;
use gb_dataflow::gb_ops::op::{AluOp, Indirect, Op, Operand, Pointer, Register, StackPair};
use gb_dataflow::limits::SPOTS;
use gb_dataflow::plan::{Edit, Plan, number_of, unless_empty};
use gb_dataflow::register_set::{REGISTERS, RegisterSet};
use gb_dataflow::sources::{copied, high_registers, loaded, loaded_by, sources, stacked, without};
use gb_dataflow::spots::{
    SWITCHED, has_entry, high_of, is_known, op_at, open_at, pointed_at, pointed_by, points_to_rom,
    value_of,
};
use gb_dataflow::types::{Run, RunNode, Spot};
use gb_dataflow::ways::Ways;
use gb_dataflow::{Span, known_bank};
use std::alloc::{AllocError, Global};
use std::collections::{BTreeMap, BTreeSet};

/// The last address of ROM.
const ROM: u16 = 0x7FFF;

/// A spot with the registers whose source is sought.
#[derive(Clone, Copy, PartialEq, Eq)]
struct Question {
    spot: Spot,
    wanted: RegisterSet,
}

/// What a search follows.
#[derive(Clone, Copy, PartialEq, Eq)]
enum Sources {
    /// Copies alone, and nothing that is computed.
    Copies,
    /// What isn't known.
    Unknown,
    /// What is known, too: it may have been told apart value by value.
    All,
}

/// A tracked cell that is loaded in a procedure.
#[derive(Clone, Copy, PartialEq, Eq, PartialOrd, Ord)]
pub(crate) struct CellLoad {
    /// The number of the procedure.
    pub procedure: usize,
    pub cell: u16,
}

/// A register that isn't known where a procedure begins, though it matters there.
#[derive(Clone, Copy, PartialEq, Eq, PartialOrd, Ord)]
pub(crate) struct Entering {
    /// The number of the procedure.
    pub procedure: usize,
    /// The register, by its place among `REGISTERS`.
    pub register: usize,
}

/// Where registers come from, over calls and the stack.
#[derive(Drop)]
pub(crate) struct Origins {
    pub loads: BTreeSet<CellLoad>,
    pub entries: BTreeSet<Entering>,
    pub banked: BTreeSet<Spot>,
    /// Where a byte is loaded from several addresses in RAM, as from an array.
    pub ranged: BTreeSet<Spot>,
    /// The tracked cells from which they come.
    pub cells: BTreeSet<u16>,
    /// Whether a table in ROM is read on the way.
    pub is_by_table: bool,
}

/// A search back from registers to the cells that they were loaded from: over joins, calls, and PUSH with POP.
#[derive(Drop)]
struct CellSearch {
    alloc: Global,
    by: Sources,
    cells: BTreeSet<u16>,
    /// In which procedures tracked cells were loaded.
    loads: BTreeSet<CellLoad>,
    /// Where procedures begin to which a question came.
    entries: BTreeSet<Entering>,
    /// Where a byte is loaded from ROM of which the bank isn't known.
    banked: BTreeSet<Spot>,
    /// Where a byte is loaded from several addresses in RAM.
    ranged: BTreeSet<Spot>,
    /// Where a byte is loaded by a pointer that is counted up or down by that load, from one address in RAM as far as is known.
    counted: BTreeSet<Spot>,
    /// The bytes of RAM that were found and aren't tracked.
    untracked: BTreeSet<u16>,
    /// Whether a table in ROM is read.
    is_by_table: bool,
    seen: BTreeSet<(Spot, u64)>,
    left: Vec<Question>,
    ways: BTreeMap<usize, Ways>,
}

impl CellSearch {
    fn ask(&mut self, spot: Spot, wanted: RegisterSet) -> Result<(), AllocError> {
        if !wanted.is_empty() {
            self.left.push(Question { spot, wanted })?;
        }
        Ok(())
    }

    /// The points before a spot, in its procedure.
    fn points_before(&mut self, run: &Run<'_>, spot: Spot) -> Result<Vec<CodePoint>, AllocError> {
        if !self.ways.contains_key(&spot.procedure) {
            let ways = Ways::of(self.alloc, run, spot.procedure)?;
            self.ways.insert(spot.procedure, ways)?;
        }
        match self.ways.get(&spot.procedure) {
            Some(ways) => ways.before(spot.point),
            None => Ok(Vec::new(self.alloc)),
        }
    }

    /// Where a procedure begins, the question goes to its callers.
    fn ask_callers(
        &mut self,
        run: &Run<'_>,
        spot: Spot,
        wanted: RegisterSet,
    ) -> Result<(), AllocError> {
        let Some(procedure) = run.procedures.get(spot.procedure) else {
            return Ok(());
        };
        if procedure.key.is_handler || !has_entry(run, spot) {
            return Ok(());
        }
        for (number, register) in REGISTERS.iter().enumerate() {
            if wanted.contains(*register) {
                self.entries.insert(Entering {
                    procedure: spot.procedure,
                    register: number,
                })?;
            }
        }
        for site in procedure.sites.iter() {
            if let Some(node) = run.nodes.get(*site) {
                self.ask(node.spot(), wanted)?;
            }
        }
        Ok(())
    }

    /// A is loaded from a cell: that is found, if it is tracked.
    fn meet_cell(
        &mut self,
        run: &Run<'_>,
        spot: Spot,
        cell: u16,
        wanted: &RegisterSet,
    ) -> Result<(), AllocError> {
        self.find(run, spot, cell)?;
        self.ask(spot, without(wanted, Register::A))
    }

    /// A cell is found.
    fn find(&mut self, run: &Run<'_>, spot: Spot, cell: u16) -> Result<(), AllocError> {
        if run.configuration.tracked.contains(&cell) {
            self.cells.insert(cell)?;
            self.loads.insert(CellLoad {
                procedure: spot.procedure,
                cell,
            })?;
        } else {
            self.untracked.insert(cell)?;
        }
        Ok(())
    }

    /// A register is loaded from a cell through a pair: the cell is found, if it is tracked.
    fn meet_pointed(
        &mut self,
        run: &Run<'_>,
        spot: Spot,
        cell: u16,
        op: Op,
        wanted: &RegisterSet,
    ) -> Result<(), AllocError> {
        self.find(run, spot, cell)?;
        // In ROM each byte is known once its address is.
        if ROM < cell && matches!(op, Op::LoadA(Indirect::HlIncrement | Indirect::HlDecrement)) {
            self.counted.insert(spot)?;
        }
        match loaded(op) {
            Some(target) => self.ask(spot, without(wanted, target)),
            None => self.ask(spot, *wanted),
        }
    }

    /// A is computed from itself and the byte at HL: that cell is found, if it is tracked, and A is followed.
    fn meet_operand(
        &mut self,
        run: &Run<'_>,
        spot: Spot,
        wanted: &RegisterSet,
    ) -> Result<(), AllocError> {
        match pointed_at(run, spot, Pointer::Hl) {
            Some(cell) => {
                self.find(run, spot, cell)?;
                self.ask(spot, *wanted)
            }
            None => Ok(()),
        }
    }

    /// How many bytes are on the stack where a spot is met.
    fn depths_at(alloc: Global, run: &Run<'_>, spot: Spot) -> Result<BTreeSet<usize>, AllocError> {
        let mut depths = BTreeSet::new(alloc);
        for number in run.nodes_at(spot) {
            if let Some(node) = run.nodes.get(*number) {
                depths.insert(node.state.items().len())?;
            }
        }
        Ok(depths)
    }

    /// Registers are popped: the question goes to what was pushed.
    fn meet_pop(
        &mut self,
        run: &Run<'_>,
        pop: Spot,
        to: StackPair,
        wanted: &RegisterSet,
    ) -> Result<(), AllocError> {
        let popped = stacked(to);
        let mut rest = *wanted;
        for register in popped.iter().flatten() {
            rest = without(&rest, *register);
        }
        self.ask(pop, rest)?;
        // What a POP takes was pushed with two bytes fewer on the stack.
        let depths = CellSearch::depths_at(self.alloc, run, pop)?;
        for node in &run.nodes {
            let push = node.spot();
            let depth = node.state.items().len().saturating_add(2);
            if push.procedure != pop.procedure || !depths.contains(&depth) {
                continue;
            }
            let Some(Op::Push(from)) = op_at(run, push) else {
                continue;
            };
            let mut pushed = RegisterSet::empty();
            for (target, source) in popped.iter().zip(stacked(from).iter()) {
                if let (Some(target), Some(source)) = (target, source) {
                    if wanted.contains(*target) {
                        pushed.insert(*source);
                    }
                }
            }
            self.ask(push, pushed)?;
        }
        Ok(())
    }

    /// What a load by a pointer says of where a value comes from: from a bank that isn't known, from one of several bytes, or from ROM.
    fn note_load(&mut self, run: &Run<'_>, spot: Spot, pointer: Pointer) -> Result<(), AllocError> {
        if reads_unknown_bank(run, spot, pointer) {
            self.banked.insert(spot)?;
        }
        if reads_several_bytes(run, spot, pointer) {
            self.ranged.insert(spot)?;
        }
        if points_to_rom(run, spot, pointer) {
            self.is_by_table = true;
        }
        Ok(())
    }

    /// The question goes to before an instruction.
    fn step_back(
        &mut self,
        run: &Run<'_>,
        spot: Spot,
        wanted: &RegisterSet,
    ) -> Result<(), AllocError> {
        let Some(op) = op_at(run, spot) else {
            return Ok(());
        };
        let pointer = loaded_by(op, wanted);
        if let Some(pointer) = pointer {
            self.note_load(run, spot, pointer)?;
        }
        // A byte of ROM at a known address is known itself, so that what is computed comes from elsewhere.
        if let Some(cell) = pointer.and_then(|pointer| cell_at_spot(run, spot, pointer))
            && (self.by == Sources::Copies || ROM < cell)
        {
            return self.meet_pointed(run, spot, cell, op, wanted);
        }
        let before = if self.by == Sources::Copies {
            copied(op, wanted)
        } else {
            sources(op, wanted)
        };
        if let Some(before) = before {
            return self.ask(spot, before);
        }
        match op {
            Op::LoadHigh(low) => self.meet_cell(run, spot, 0xFF00 | u16::from(low), wanted),
            Op::LoadAbsolute(cell) => self.meet_cell(run, spot, cell, wanted),
            Op::Pop(to) => self.meet_pop(run, spot, to, wanted),
            Op::Alu(operation, Operand::AtHl)
                if operation != AluOp::Cp && self.by != Sources::Copies => {
                self.meet_operand(run, spot, wanted)
            }
            _ => Ok(()),
        }
    }

    /// Takes a question back by one instruction, on all ways. What is known at the spot needs no answer, but for copies.
    fn answer(&mut self, run: &Run<'_>, question: Question) -> Result<(), AllocError> {
        let Question { spot, wanted } = question;
        let open = if self.by == Sources::Unknown {
            open_at(run, spot, &wanted, true)
        } else {
            wanted
        };
        if open.is_empty() || !self.seen.insert((spot, number_of(&open)))? {
            return Ok(());
        }
        self.ask_callers(run, spot, open)?;
        for point in &self.points_before(run, spot)? {
            let before = Spot {
                procedure: spot.procedure,
                point: *point,
            };
            self.step_back(run, before, &open)?;
        }
        Ok(())
    }
}

/// The address that a pointer holds at the first node of a spot; where that is a key cell already, as the first one of an array
/// whose rounds are told apart, the first that is none yet.
fn cell_at_spot(run: &Run<'_>, spot: Spot, pointer: Pointer) -> Option<u16> {
    let first = pointed_at(run, spot, pointer)?;
    let configuration = &run.configuration;
    if !configuration.key_cells.contains(&first) {
        return Some(first);
    }
    for number in run.nodes_at(spot) {
        if let Some(node) = run.nodes.get(*number)
            && let Some(cell) = pointed_by(node, pointer)
            && configuration.tracked.contains(&cell)
            && !configuration.key_cells.contains(&cell)
        {
            return Some(cell);
        }
    }
    Some(first)
}

/// Whether a pointer at a spot may point into the switched bank while that isn't known.
fn reads_unknown_bank(run: &Run<'_>, spot: Spot, pointer: Pointer) -> bool {
    run.nodes_at(spot).iter().any(|number| match run.nodes.get(*number) {
        Some(node) => {
            let high = high_of(node, pointer);
            let ctl = &node.state.core().ctl;
            high.lo < 0x80 && high.hi >= 0x40 && known_bank(run.rom, ctl, SWITCHED).is_none()
        }
        None => false,
    })
}

/// Whether a pointer at a spot points to several addresses, all of them behind ROM.
fn reads_several_bytes(run: &Run<'_>, spot: Spot, pointer: Pointer) -> bool {
    let mut first = None;
    let mut are_several = false;
    for number in run.nodes_at(spot) {
        let Some(node) = run.nodes.get(*number) else {
            continue;
        };
        if high_of(node, pointer).lo < 0x80 {
            return false;
        }
        let address = pointed_by(node, pointer);
        are_several = are_several || address.is_none() || (first.is_some() && first != address);
        first = address;
    }
    are_several
}

/// The addresses that a pointer may hold at a node, by its bytes.
pub(crate) fn span_at(node: &RunNode, pointer: Pointer) -> Span {
    let (high, low) = (high_of(node, pointer), value_of(node, pointer.low()));
    Span {
        first: u16::from_be_bytes([high.lo, low.lo]),
        last: u16::from_be_bytes([high.hi, low.hi]),
        ..Span::one(0)
    }
}

/// The addresses that the nodes at a spot load from through a pair.
pub fn loaded_span(run: &Run<'_>, spot: Spot) -> Option<Span> {
    let pointer = loaded_by(op_at(run, spot)?, &RegisterSet::all())?;
    let mut all: Option<Span> = None;
    for number in run.nodes_at(spot) {
        if let Some(node) = run.nodes.get(*number) {
            let here = span_at(node, pointer);
            all = match all {
                Some(span) => Some(Span {
                    first: span.first.min(here.first),
                    last: span.last.max(here.last),
                    ..here
                }),
                None => Some(here),
            };
        }
    }
    all
}

/// The tracked cells that registers at a spot were loaded from, or are copies of.
fn cells_behind(
    alloc: Global,
    run: &Run<'_>,
    spot: Spot,
    wanted: &RegisterSet,
    by: Sources,
) -> Result<BTreeSet<u16>, AllocError> {
    let CellSearch { cells, .. } = searched(alloc, run, spot, wanted, by)?;
    Ok(cells)
}

/// The bytes of RAM that aren't tracked, from which registers at a spot come that aren't known.
pub fn untracked_behind(
    alloc: Global,
    run: &Run<'_>,
    spot: Spot,
    wanted: &RegisterSet,
) -> Result<BTreeSet<u16>, AllocError> {
    let CellSearch { untracked, .. } = searched(alloc, run, spot, wanted, Sources::Unknown)?;
    Ok(untracked)
}

/// Where registers at a spot that aren't known come from.
pub(crate) fn origins_of(
    alloc: Global,
    run: &Run<'_>,
    spot: Spot,
    wanted: &RegisterSet,
) -> Result<Origins, AllocError> {
    origins_by(alloc, run, spot, wanted, Sources::Unknown)
}

/// Where registers at a spot come from, those that are known too.
pub(crate) fn all_origins_of(
    alloc: Global,
    run: &Run<'_>,
    spot: Spot,
    wanted: &RegisterSet,
) -> Result<Origins, AllocError> {
    origins_by(alloc, run, spot, wanted, Sources::All)
}

fn origins_by(
    alloc: Global,
    run: &Run<'_>,
    spot: Spot,
    wanted: &RegisterSet,
    by: Sources,
) -> Result<Origins, AllocError> {
    let CellSearch {
        loads,
        entries,
        banked,
        ranged,
        cells,
        is_by_table,
        ..
    } = searched(alloc, run, spot, wanted, by)?;
    Ok(Origins {
        loads,
        entries,
        banked,
        ranged,
        cells,
        is_by_table,
    })
}

fn searched(
    alloc: Global,
    run: &Run<'_>,
    spot: Spot,
    wanted: &RegisterSet,
    by: Sources,
) -> Result<CellSearch, AllocError> {
    let mut search = CellSearch {
        alloc,
        by,
        cells: BTreeSet::new(alloc),
        loads: BTreeSet::new(alloc),
        entries: BTreeSet::new(alloc),
        banked: BTreeSet::new(alloc),
        ranged: BTreeSet::new(alloc),
        counted: BTreeSet::new(alloc),
        untracked: BTreeSet::new(alloc),
        is_by_table: false,
        seen: BTreeSet::new(alloc),
        left: Vec::new(alloc),
        ways: BTreeMap::new(alloc),
    };
    search.ask(spot, *wanted)?;
    for _ in 0..SPOTS {
        let Some(question) = search.left.pop() else {
            break
        };
        search.answer(run, question)?;
    }
    Ok(search)
}

/// The register that a node's instruction stores, and the address where, if it is one.
fn stored_by(run: &Run<'_>, node: &RunNode) -> Option<(Register, u16)> {
    let op = op_at(run, node.spot())?;
    let register = op.stored()?;
    let cell = match op {
        Op::StoreHigh(low) => 0xFF00 | u16::from(low),
        Op::StoreAbsolute(cell) => cell,
        _ => pointed_by(node, op.pointer()?)?,
    };
    Some((register, cell))
}

/// A register that isn't known where it is stored.
#[derive(Clone, Copy, PartialEq, Eq)]
pub(crate) struct StoredCell {
    pub spot: Spot,
    pub register: Register,
}

/// Where what isn't known is stored in the tracked cells that registers at a spot were loaded from, once for each place.
pub(crate) fn unknown_stores(
    alloc: Global,
    run: &Run<'_>,
    spot: Spot,
    wanted: &RegisterSet,
) -> Result<Vec<StoredCell>, AllocError> {
    let cells = cells_behind(alloc, run, spot, wanted, Sources::Unknown)?;
    let mut stores = Vec::new(alloc);
    for node in &run.nodes {
        if let Some((register, cell)) = stored_by(run, node)
            && cells.contains(&cell)
            && !is_known(node, register)
        {
            let spot = node.spot();
            let store = StoredCell { spot, register };
            if !stores.contains(&store) {
                stores.push(store)?;
            }
        }
    }
    Ok(stores)
}

/// The tracked cells that registers at a spot were loaded from become part of every key.
pub(crate) fn key_cells(
    alloc: Global,
    run: &Run<'_>,
    spot: Spot,
    wanted: &RegisterSet,
) -> Result<Option<Plan>, AllocError> {
    let cells = cells_behind(alloc, run, spot, wanted, Sources::Unknown)?;
    plan_of_cells(alloc, run, &cells)
}

/// Makes key cells of the cells that known registers came from: they were told apart value by value.
pub(crate) fn key_all_cells(
    alloc: Global,
    run: &Run<'_>,
    spot: Spot,
    wanted: &RegisterSet,
) -> Result<Option<Plan>, AllocError> {
    let cells = cells_behind(alloc, run, spot, wanted, Sources::All)?;
    plan_of_cells(alloc, run, &cells)
}

/// Cells become key cells.
fn plan_of_cells(
    alloc: Global,
    run: &Run<'_>,
    cells: &BTreeSet<u16>,
) -> Result<Option<Plan>, AllocError> {
    let mut plan = Plan::new(alloc);
    for cell in cells.iter() {
        if !run.configuration.key_cells.contains(cell) {
            plan.add(Edit::Cell(*cell))?;
        }
    }
    Ok(unless_empty(run, plan))
}

/// Where the high byte of a pointer is a copy of a byte in RAM: the pointer itself is kept there.
#[derive(Drop)]
pub struct PointerSource {
    /// The tracked cells.
    pub cells: BTreeSet<u16>,
    /// Where it is loaded from several addresses, as from a queue.
    pub loads: BTreeSet<Spot>,
    /// Where it is loaded from one address so far, and the pointer to it is counted.
    pub counted: BTreeSet<Spot>,
}

impl PointerSource {
    /// It doesn't come from RAM.
    pub fn none(alloc: Global) -> PointerSource {
        PointerSource {
            cells: BTreeSet::new(alloc),
            loads: BTreeSet::new(alloc),
            counted: BTreeSet::new(alloc),
        }
    }
}

/// Where the high byte of a pointer comes from in RAM.
pub fn pointer_source(
    alloc: Global,
    run: &Run<'_>,
    spot: Spot,
    registers: &RegisterSet,
) -> Result<PointerSource, AllocError> {
    let high = high_registers(registers);
    let CellSearch {
        cells,
        ranged,
        counted,
        ..
    } = searched(alloc, run, spot, &high, Sources::Copies)?;
    Ok(PointerSource {
        cells,
        loads: ranged,
        counted,
    })
}

/// The tracked cells that the high byte of a pointer is a copy of.
pub(crate) fn pointer_cells(
    alloc: Global,
    run: &Run<'_>,
    spot: Spot,
    registers: &RegisterSet,
) -> Result<BTreeSet<u16>, AllocError> {
    let PointerSource { cells, .. } = pointer_source(alloc, run, spot, registers)?;
    Ok(cells)
}
