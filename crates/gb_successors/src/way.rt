//! One successor of an instruction, and the states behind it.

ghost use Rattle.std.specs.Prelude.{◌≡◌, ◌+◌, ◌≤◌, ◌++◌, IfSome, Some, length};
ghost use Rattle.gb_product.specs.Below.gb_abs.Cells.{with_cell};
ghost use Rattle.gb_product.specs.Below.gb_abs.Operations.{with_core};
ghost use Rattle.gb_domain.specs.Limits.{cell_room};
ghost use Rattle.gb_successors.specs.Behind as Behind;
ghost use Rattle.gb_successors.specs.Behind.{with_relations, with_summary};

use crate::stacks::{Stack, StackMove, count_behind, move_stack};
use gb_abs_memory::store::store_in;
use gb_abs_memory::tell_item;
use gb_domain::pairs::{ANY_PAIRS, PairBounds};
use gb_domain::relations::Relations;
use gb_domain::summary::Summary;
use gb_domain::types::{Abs, Cell, Core, Rules, Setting, Val};
use gb_ops::machine::{Kind, Region};
use gb_product::reduced::reduce;
use gb_product::{
    AbsRead, AbsWrite, Span, Target, held_relations, put_cell, relations_outside, stack_held,
};
use std::marker::Model;

/// One way on from an instruction: what it reads and writes besides its own bytes, where it goes on,
/// the address behind it, where a call returns to, and the states behind it. Those are kept as their core and the
/// states before, which they share their items and cells with unless `moved` says what changes them, and what they say of the
/// whole program unless `summary` says something else. Contracts see the states whole.
#[derive(Drop)]
pub struct Successor<'a> {
    pub read: AbsRead,
    pub write: AbsWrite,
    pub target: Target,
    pub next: u16,
    pub(crate) core: Core,
    pub(crate) relations: Relations,
    pub(crate) moved: Option<Moved>,
    pub(crate) summary: Option<Summary>,
    pub(crate) told: Option<Told>,
    pub(crate) before: &'a Abs,
}

/// What a side tells of an item, by its address in the stack.
#[derive(Clone, Copy)]
pub struct Told {
    pub setting: Setting,
    pub region: Region,
    pub cell: Cell,
}

/// What changes items or cells: what a condition tells of a byte of memory, the stack's move, and a write to a cartridge of a
/// kind.
#[derive(Clone, Copy)]
pub struct Moved {
    pub stack: Stack,
    pub kind: Kind,
    pub cell: Option<Cell>,
    pub stack_move: StackMove,
}

impl<'a> Model for Successor<'a> {
    ghost use Rattle.gb_successors.specs.Way.{Successor};
    ghost use Rattle.gb_successors.specs.Behind.{state_behind, told_behind};

    ghost Value = { Successor };

    ghost view = { λ t. record { read = t.read; write = t.write; target = t.target; next = t.next; state = told_behind t.told t.before.now.core (state_behind t.moved t.write t.core t.relations t.summary t.before.now) } };
}

impl<'a> Successor<'a> {
    ghost use Rattle.gb_successors.specs.Settled.{held_successor};
    ghost use Rattle.gb_successors.specs.Successors.{reduced_successor, some_if};

    /// The core of the states behind.
    pub fn core(&self) -> &Core
        ensures { result.now ≡ self.now.state.core }
    {
        &self.core
    }

    /// What is known together of the states behind.
    pub fn relations(&self) -> &Relations
        ensures { result.now ≡ self.now.state.relations }
    {
        &self.relations
    }

    /// What the states behind say of the whole program.
    pub fn summary(&self) -> &Summary
        ensures { result.now ≡ self.now.state.summary }
    {
        match &self.summary {
            None => self.before.summary(),
            Some(summary) => summary,
        }
    }

    /// States with the items and cells of those behind, where no item or cell changed.
    pub fn unmoved(&self) -> Option<&'a Abs>
        ensures { IfSome result (λ s. self.now.state ≡ with_summary self.now.state.summary (with_relations self.now.state.relations (with_core s.now self.now.state.core))) }
    {
        match (self.moved, self.told) {
            (None, None) => Some(self.before),
            _ => None,
        }
    }

    /// The states behind are reduced in place, where the pairs lay in these bounds as the procedure was entered; whether something is
    /// meant by them, so that the successor is possible. What was stored may be refused yet, so that links may read any bytes.
    #[inline(always)]
    #[tactic(auto, unfolding(crate::specs::Successors::reduced_successor))]
    pub fn reduce(&mut self, rules: Rules, entered: &PairBounds) -> bool
        ensures { reduced_successor rules entered.now self.old ≡ some_if result self.new }
    {
        reduce(
            rules,
            entered,
            &ANY_PAIRS,
            &mut self.core,
            &mut self.relations,
        )
    }

    /// How many items the states behind hold.
    #[tactic(auto, using(crate::proofs::CountLaws::unmoved_count, crate::proofs::CountLaws::count_is))]
    pub fn item_count(&self) -> u8
        ensures { result ≡ length self.now.state.items }
    {
        let count = self.before.items().len();
        match &self.moved {
            None => count as u8,
            Some(moved) => count_behind(moved.stack.setting.rules, moved.stack_move, count) as u8,
        }
    }

    /// Of places in the stack those are left that are items still.
    pub(crate) fn hold(&mut self, stack: &Stack)
        ensures { self.new ≡ held_successor stack.now self.old }
    {
        self.relations = match self.target {
            Target::Main(_) => relations_outside(stack.region, &self.relations),
            _ => {
                let held = stack_held(stack.setting, stack.region, self.item_count());
                held_relations(held, &self.relations)
            }
        };
    }

    /// The states behind, in the place of others.
    pub fn put_state(&self, after: &mut Abs)
        ensures { after.new ≡ self.now.state }
    {
        copy_state(self.before, after);
        if let Some(moved) = self.moved {
            move_state(moved, self.write, after);
            // What a move makes of it is told by `summary`.
            after.set_summary(self.before.summary().copied());
        }
        after.set_core(self.core);
        after.set_relations(self.relations);
        if let Some(summary) = &self.summary {
            after.set_summary(summary.copied());
        }
        if let Some(told) = self.told {
            tell(told, self.before.core(), after);
        }
    }

    /// The states behind.
    pub fn state(&self) -> Abs
        ensures { result ≡ self.now.state }
    {
        let mut after = Abs::new(self.core);
        self.put_state(&mut after);
        after
    }
}

/// What a side tells of an item is known: out of line, as it is rare.
#[inline(never)]
fn tell(told: Told, core: &Core, state: &mut Abs)
    ensures { state.new ≡ Behind.told_behind (Some told) core.now state.old }
{
    let Told {
        setting,
        region,
        cell,
    } = told;
    tell_item(setting, region, core, cell.address, &cell.val, state);
}

fn append_items(items: &[Val], state: &mut Abs)
    requires { length state.old.items + length items.now ≤ 255 }
    ensures { state.new ≡ record state.old { items = state.old.items ++ items.now } }
{
    for item in items {
        state.push_item(*item);
    }
}

fn append_cells(cells: &[Cell], state: &mut Abs)
    requires { length state.old.cells + length cells.now ≤ 64 }
    ensures { state.new ≡ record state.old { cells = state.old.cells ++ cells.now } }
{
    for cell in cells {
        state.push_cell(*cell);
    }
}

/// A state becomes another one.
fn copy_state(from: &Abs, state: &mut Abs)
    ensures { state.new ≡ from.now }
{
    state.set_plain(*from.core());
    state.set_relations(*from.relations());
    state.set_summary(from.summary().copied());
    append_items(from.items(), state);
    append_cells(from.cells(), state);
}

/// What a condition tells of a byte of memory is known of the states: kept out of line, so that states are cleared and copied
/// only then.
#[inline(never)]
fn tell_cell(rules: Rules, cell: Cell, state: &mut Abs)
    ensures { state.new ≡ record state.old { cells = with_cell (cell_room rules) cell state.old.cells } }
{
    put_cell(rules, cell.address, cell.val, state);
}

/// Sets the cell that a condition bounds, if it bounds one.
#[tactic(auto, unfolding(crate::specs::Behind::with_cell_if))]
fn set_cell(setting: Setting, cell: Option<Cell>, state: &mut Abs)
    ensures { state.new ≡ Behind.with_cell_if setting cell state.old }
{
    if let Some(cell) = cell {
        tell_cell(setting.rules, cell, state);
    }
}

/// A write changes the states. A word is two stores, the low byte first. A word that is
/// pushed changes no cell.
#[tactic(auto, unfolding(crate::specs::Behind::written))]
fn write(stack: Stack, kind: Kind, write: AbsWrite, state: &mut Abs)
    ensures { state.new ≡ Behind.written stack.setting stack.region kind write state.old }
{
    let (setting, region) = (stack.setting, stack.region);
    match write {
        AbsWrite::Byte(span, val) => store_in(setting, region, kind, span, &val, state),
        AbsWrite::Word(address, low, high) => {
            let behind = Span::one(address.wrapping_add(1));
            store_in(setting, region, kind, Span::one(address), &low, state);
            store_in(setting, region, kind, behind, &high, state);
        }
        AbsWrite::Nothing | AbsWrite::Push { .. } => {}
    }
}

/// The items and cells behind an instruction.
#[tactic(auto, unfolding(crate::specs::Behind::moved_state))]
pub(crate) fn move_state(moved: Moved, write: AbsWrite, state: &mut Abs)
    ensures { state.new ≡ Behind.moved_state moved.stack moved.kind moved.cell moved.stack_move write state.old }
{
    set_cell(moved.stack.setting, moved.cell, state);
    move_stack(moved.stack.setting, moved.stack_move, state);
    self::write(moved.stack, moved.kind, write, state);
}
