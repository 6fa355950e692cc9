//! What refinement changes.

use crate::carries::is_carry_read;
use crate::sources::register_in;
use crate::spots::place_of;
use crate::ways::Ways;
use gb_fixpoint::code_point::CodePoint;
use gb_fixpoint::configuration::{Configuration, TargetPlace};
use gb_fixpoint::gb_ops::op::{Operand, Register};
use gb_fixpoint::register_set::{REGISTERS, RegisterSet};
use gb_fixpoint::types::{Run, Spot};
use gb_fixpoint::{EditedPlaces, Rules};
use std::alloc::{AllocError, Global};
use std::collections::{BTreeSet, HashMap};

/// One change of a configuration.
#[derive(Clone, Copy, PartialEq, Eq)]
pub enum Edit {
    /// The known registers become part of the key at a place.
    Key(TargetPlace),
    /// Beside them the carry becomes part of the key at a place.
    Carry(TargetPlace),
    /// The known registers become part of the key at a place, while a pointer is at a byte that is kept.
    Copied(TargetPlace),
    /// H and D are taken value by value at a place.
    Page(TargetPlace),
    /// They no longer are.
    Unpage(TargetPlace),
    /// A register is taken value by value at a place.
    Split(TargetPlace, Register),
    /// The procedures at a target are parted by registers.
    Part(CodePoint, RegisterSet),
    /// The procedures at a target are parted by the controller.
    PartBank(CodePoint),
    /// The procedures at a target are parted by a cell.
    PartCell(CodePoint, u16),
    /// A cell becomes part of every key.
    Cell(u16),
    /// A cell is tracked, if there is room.
    Track(u16),
    /// A register's known values become part of the key at a place.
    Count(TargetPlace, Register),
    /// Whether a register is 0 becomes part of the key at a place.
    Peel(TargetPlace, Register),
    /// The known values of some bytes of the stack become part of the key at a place.
    CountItems(TargetPlace, u64),
    /// At a comparison of a known number with an operand, the states in which that is greater are told apart.
    Compare(TargetPlace, Operand),
    /// Calls of a target are followed in their callers.
    Inline(CodePoint),
}

/// Changes that are made together.
#[derive(Drop)]
pub struct Plan {
    alloc: Global,
    edits: Vec<Edit>,
}

impl Plan {
    /// No change yet.
    pub fn new(alloc: Global) -> Plan {
        Plan {
            alloc,
            edits: Vec::new(alloc),
        }
    }

    /// One change.
    pub fn of(alloc: Global, edit: Edit) -> Result<Plan, AllocError> {
        let mut plan = Plan::new(alloc);
        plan.add(edit)?;
        Ok(plan)
    }

    /// Whether there is no change yet.
    pub fn is_empty(&self) -> bool {
        self.edits.is_empty()
    }

    /// One more change, unless it is among them.
    pub fn add_new(&mut self, edit: Edit) -> Result<(), AllocError> {
        if !self.edits.contains(&edit) {
            self.add(edit)?;
        }
        Ok(())
    }

    /// One more change.
    pub fn add(&mut self, edit: Edit) -> Result<(), AllocError> {
        self.edits.push(edit)?;
        Ok(())
    }

    /// A number by which plans are known again.
    pub fn number(&self) -> u64 {
        let mut number: u64 = 0;
        for edit in &self.edits {
            for part in parts_of(*edit) {
                number = number
                    .wrapping_add(part)
                    .wrapping_add(1)
                    .wrapping_mul(0x0100_0000_01B3);
            }
        }
        number
    }

    /// All points are paged, in the procedures that begin at a target.
    pub fn page_all(
        alloc: Global,
        target: CodePoint,
        points: &BTreeSet<CodePoint>,
    ) -> Result<Plan, AllocError> {
        let mut plan = Plan::new(alloc);
        for point in points.iter() {
            plan.add(Edit::Page(TargetPlace {
                target,
                point: *point,
            }))?;
        }
        Ok(plan)
    }

    /// A point is keyed. By the rules of version 3 the carry is part of the key where it is read from there on.
    pub fn key(&mut self, run: &Run<'_>, ways: &Ways, spot: Spot) -> Result<(), AllocError> {
        let place = place_of(run, spot);
        self.add(Edit::Key(place))?;
        if run.rules() == Rules::Extended && is_carry_read(run, ways, spot) {
            self.add(Edit::Carry(place))?;
        }
        Ok(())
    }

    /// All points are keyed, in a procedure and those that begin where it does.
    pub fn key_all(
        alloc: Global,
        run: &Run<'_>,
        ways: &Ways,
        procedure: usize,
        points: &BTreeSet<CodePoint>,
    ) -> Result<Plan, AllocError> {
        let mut plan = Plan::new(alloc);
        for point in points.iter() {
            plan.key(
                run,
                ways,
                Spot {
                    procedure,
                    point: *point,
                },
            )?;
        }
        Ok(plan)
    }

    /// The places that it keys, where it splits no register: these can be taken back later.
    pub fn loose_keys(&self) -> Result<Vec<TargetPlace>, AllocError> {
        let mut keys = Vec::new(self.alloc);
        for edit in &self.edits {
            match edit {
                Edit::Key(place) => keys.push(*place)?,
                Edit::Split(..) => return Ok(Vec::new(self.alloc)),
                Edit::Carry(_)
                | Edit::Copied(_)
                | Edit::Page(_)
                | Edit::Unpage(_)
                | Edit::Part(..)
                | Edit::PartBank(_)
                | Edit::PartCell(..)
                | Edit::Cell(_)
                | Edit::Track(_)
                | Edit::Count(..)
                | Edit::CountItems(..)
                | Edit::Peel(..)
                | Edit::Compare(..)
                | Edit::Inline(_) => {}
            }
        }
        Ok(keys)
    }

    /// Adds where the changes tell states apart; whether they do so there alone, and change nothing else.
    pub fn add_edited(&self, edited: &mut EditedPlaces) -> Result<bool, AllocError> {
        for edit in &self.edits {
            match edit {
                Edit::Key(place)
                | Edit::Carry(place)
                | Edit::Copied(place)
                | Edit::Page(place)
                | Edit::Unpage(place)
                | Edit::Split(place, _)
                | Edit::Count(place, _)
                | Edit::Peel(place, _)
                | Edit::CountItems(place, _) => {
                    edited.places.insert(*place)?;
                }
                Edit::Part(target, _) | Edit::PartBank(target) | Edit::PartCell(target, _) => {
                    edited.targets.insert(*target)?;
                }
                Edit::Cell(_) | Edit::Track(_) | Edit::Compare(..) | Edit::Inline(_) => {
                    return Ok(false);
                }
            }
        }
        Ok(true)
    }

    /// Whether bytes of RAM have narrower bounds under it: what facts say of them was learnt without, and is to be learnt anew.
    pub fn narrows_facts(&self) -> bool {
        self.edits
            .iter()
            .any(|edit| matches!(edit, Edit::Track(_) | Edit::Compare(..)))
    }

    /// Makes the changes.
    pub fn apply(&self, configuration: &mut Configuration) -> Result<(), AllocError> {
        for edit in &self.edits {
            apply_edit(*edit, configuration)?;
        }
        Ok(())
    }
}

/// The plan, unless it was taken back before.
pub fn unless_taken_back(run: &Run<'_>, plan: Plan) -> Option<Plan> {
    if run.configuration.taken_back.contains(&plan.number()) {
        None
    } else {
        Some(plan)
    }
}

/// The plan, if it has a change and wasn't taken back before.
pub fn unless_empty(run: &Run<'_>, plan: Plan) -> Option<Plan> {
    if plan.is_empty() {
        None
    } else {
        unless_taken_back(run, plan)
    }
}

/// A set of registers as a number.
pub fn number_of(set: &RegisterSet) -> u64 {
    let mut number: u64 = 0;
    for register in REGISTERS {
        number = number.wrapping_mul(2);
        if set.contains(register) {
            number = number.wrapping_add(1);
        }
    }
    number
}

/// A change as numbers.
fn parts_of(edit: Edit) -> [u64; 4] {
    let (kind, place, more) = match edit {
        Edit::Key(place) => (0, place, 0),
        Edit::Page(place) => (1, place, 0),
        Edit::Split(place, register) => (2, place, number_of(&RegisterSet::of(&[register]))),
        Edit::Count(place, register) => (3, place, number_of(&RegisterSet::of(&[register]))),
        Edit::Peel(place, register) => (4, place, number_of(&RegisterSet::of(&[register]))),
        Edit::CountItems(place, items) => (5, place, items),
        Edit::Part(target, registers) => return [6, target.number(), number_of(&registers), 0],
        Edit::Cell(cell) => return [7, u64::from(cell), 0, 0],
        Edit::Track(cell) => return [15, u64::from(cell), 0, 0],
        Edit::Inline(target) => return [8, target.number(), 0, 0],
        Edit::Carry(place) => (9, place, 0),
        Edit::Unpage(place) => (10, place, 0),
        Edit::PartBank(target) => return [11, target.number(), 0, 0],
        Edit::PartCell(target, cell) => return [12, target.number(), u64::from(cell), 0],
        Edit::Copied(place) => (13, place, 0),
        Edit::Compare(place, operand) => (14, place, number_of(&register_in(operand))),
    };
    [kind, place.target.number(), place.point.number(), more]
}

/// Makes a change.
fn apply_edit(edit: Edit, configuration: &mut Configuration) -> Result<(), AllocError> {
    match edit {
        Edit::Key(place) => {
            configuration.keyed.insert(place)?;
        }
        Edit::Carry(place) => {
            configuration.carried.insert(place)?;
        }
        Edit::Copied(place) => {
            configuration.copied.insert(place)?;
        }
        Edit::Page(place) => {
            configuration.paged.insert(place)?;
        }
        Edit::Unpage(place) => {
            configuration.paged.remove(&place);
        }
        Edit::Split(place, register) => {
            let mut registers = split_at(configuration, place);
            registers.insert(register);
            configuration.split.insert(place, registers)?;
        }
        Edit::Part(target, registers) => {
            let registers = parted_by(configuration, target).union(&registers);
            configuration.parted.insert(target, registers)?;
        }
        Edit::PartBank(target) => {
            configuration.by_controller.insert(target)?;
        }
        Edit::PartCell(target, cell) => {
            let cells = configuration.entry_cells(target).with(cell);
            configuration.by_cells.insert(target, cells)?;
        }
        Edit::Cell(cell) => {
            configuration.key_cells.insert(cell)?;
        }
        Edit::Track(cell) => {
            if configuration.tracked.len() < configuration.edition.rules().cell_room() {
                configuration.tracked.insert(cell)?;
            }
        }
        Edit::Count(place, register) => {
            let mut registers = registers_at(&configuration.counted, place);
            registers.insert(register);
            configuration.counted.insert(place, registers)?;
        }
        Edit::Peel(place, register) => {
            let mut registers = registers_at(&configuration.peeled, place);
            registers.insert(register);
            configuration.peeled.insert(place, registers)?;
        }
        Edit::CountItems(place, items) => {
            let items = configuration.items_at(place) | items;
            configuration.counted_items.insert(place, items)?;
        }
        Edit::Compare(place, operand) => {
            configuration.compared.insert(place, operand)?;
        }
        Edit::Inline(target) => configuration.inline(target)?,
    }
    Ok(())
}

/// The registers of a place.
pub fn registers_at(
    registers: &HashMap<TargetPlace, RegisterSet>,
    place: TargetPlace,
) -> RegisterSet {
    match registers.get(&place) {
        Some(registers) => *registers,
        None => RegisterSet::empty(),
    }
}

/// The registers that are taken value by value at a place.
pub fn split_at(configuration: &Configuration, place: TargetPlace) -> RegisterSet {
    registers_at(&configuration.split, place)
}

/// The registers by which the procedures at a target are parted.
pub fn parted_by(configuration: &Configuration, target: CodePoint) -> RegisterSet {
    match configuration.parted.get(&target) {
        Some(registers) => *registers,
        None => RegisterSet::empty(),
    }
}
