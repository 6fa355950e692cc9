//! Abstract states.

ghost use Rattle.std.specs.Prelude.{◌≡◌, ◌≤◌, ◌<◌, ◌++◌, ◌∷◌, [], length, take};
ghost use Rattle.gb_domain.specs.Types.{state_of};
ghost use Rattle.gb_domain.specs.Summaries.{no_summary};

use crate::relations::Relations;
use crate::summary::Summary;
use crate::types::{Cell, Core, Val};
use arrayvec::ArrayVec;
use std::marker::Model;

/// An abstract state: a set of machine states. Contracts see its core, its items (the bytes that were pushed, the
/// oldest first), its cells (in order of address), what is known of several of its parts together, and what it says that is about
/// the whole program.
#[derive(Drop)]
pub struct Abs {
    core: Core,
    relations: Relations,
    items: ArrayVec<Val, 255>,
    cells: ArrayVec<Cell, 64>,
    summary: Summary,
}

impl Model for Abs {
    ghost use Rattle.gb_domain.specs.Types.{AbsState};

    ghost Value = { AbsState };

    ghost view = { λ s. record { core = s.core; items = s.items.items; cells = s.cells.items; relations = s.relations; summary = s.summary } };
}

impl Abs {
    ghost use Rattle.std.specs.Borrow.{sem};
    ghost use Rattle.gb_domain.specs.Lending.{LendsCore};

    /// A state of the registers alone: no stack items, no memory cells, no relations, and no summary of the program's facts.
    pub fn new(core: Core) -> Abs
        ensures { result ≡ state_of core }
    {
        Abs {
            core,
            relations: Relations::default(),
            items: ArrayVec::new(),
            cells: ArrayVec::new(),
            summary: Summary::none(),
        }
    }

    /// A state of these parts, without a summary of the program's facts.
    pub fn of_parts(
        core: Core,
        items: ArrayVec<Val, 255>,
        cells: ArrayVec<Cell, 64>,
        relations: Relations,
    ) -> Abs
        ensures { result ≡ record { core = core; items = items.items; cells = cells.items; relations = relations; summary = no_summary } }
    {
        Abs::of_all_parts(core, items, cells, relations, Summary::none())
    }

    /// A state of these parts.
    pub fn of_all_parts(
        core: Core,
        items: ArrayVec<Val, 255>,
        cells: ArrayVec<Cell, 64>,
        relations: Relations,
        summary: Summary,
    ) -> Abs
        ensures { result ≡ record { core = core; items = items.items; cells = cells.items; relations = relations; summary = summary } }
    {
        Abs {
            core,
            relations,
            items,
            cells,
            summary,
        }
    }

    pub fn core(&self) -> &Core
        ensures { result.now ≡ self.now.core }
    {
        &self.core
    }

    /// The bytes that were pushed, the oldest first.
    pub fn items(&self) -> &[Val]
        ensures items { result.now ≡ self.now.items }
        ensures few { length self.now.items ≤ 255 }
    {
        self.items.as_slice()
    }

    /// What is known of memory, in order of address.
    pub fn cells(&self) -> &[Cell]
        ensures cells { result.now ≡ self.now.cells }
        ensures few { length self.now.cells ≤ 64 }
    {
        self.cells.as_slice()
    }

    /// What is known of several parts together.
    pub fn relations(&self) -> &Relations
        ensures { result.now ≡ self.now.relations }
    {
        &self.relations
    }

    /// What it says that is about the whole program.
    pub fn summary(&self) -> &Summary
        ensures { result.now ≡ self.now.summary }
    {
        &self.summary
    }

    /// A copy: states own lists, and no state is copied unseen.
    pub fn copied(&self) -> Abs
        ensures { result ≡ self.now }
    {
        self.with_core(self.core)
    }

    /// It gets another core. All else stays.
    pub fn set_core(&mut self, core: Core)
        ensures { self.new ≡ record self.old { core = core } }
    {
        self.core = core;
    }

    /// Its core, to be changed in place. All else stays.
    #[inline(always)]
    pub fn core_mut(&mut self) -> &mut Core
        ensures value { result.now ≡ self.old.core }
        ensures* writes_back { sem 𝓛 (LendsCore self.entry result) }
    {
        &mut self.core
    }

    /// It becomes a state with the same core, without items and cells, of which this is known of several parts together, and which
    /// says nothing of the whole program.
    #[inline(always)]
    pub fn clear_lists(&mut self, relations: Relations)
        ensures { self.new ≡ record (state_of self.old.core) { relations = relations } }
    {
        self.relations = relations;
        self.items.clear();
        self.cells.clear();
        self.summary.clear();
    }

    /// It becomes the state with this core, without items and cells, of whose parts nothing is known together, and which says
    /// nothing of the whole program.
    #[inline(always)]
    pub fn set_plain(&mut self, core: Core)
        ensures { self.new ≡ state_of core }
    {
        self.core = core;
        self.clear_lists(Relations::default());
    }

    /// It gets other items. All else stays.
    pub fn set_items(&mut self, items: ArrayVec<Val, 255>)
        ensures { self.new ≡ record self.old { items = items.items } }
    {
        self.items = items;
    }

    /// It gets one item more, the newest. All else stays. There must be room.
    pub fn push_item(&mut self, item: Val)
        requires { length self.old.items < 255 }
        ensures { self.new ≡ record self.old { items = self.old.items ++ item ∷ [] } }
    {
        self.items.push(item);
    }

    /// It keeps so many of its items, the oldest. All else stays.
    pub fn truncate_items(&mut self, count: usize)
        ensures { self.new ≡ record self.old { items = take count self.old.items } }
    {
        self.items.truncate(count);
    }

    /// It gets one cell more, the last. All else stays. There must be room.
    pub fn push_cell(&mut self, cell: Cell)
        requires { length self.old.cells < 64 }
        ensures { self.new ≡ record self.old { cells = self.old.cells ++ cell ∷ [] } }
    {
        self.cells.push(cell);
    }

    /// It gets other cells. All else stays.
    pub fn set_cells(&mut self, cells: ArrayVec<Cell, 64>)
        ensures { self.new ≡ record self.old { cells = cells.items } }
    {
        self.cells = cells;
    }

    /// Something else is known of several parts together. All else stays.
    pub fn set_relations(&mut self, relations: Relations)
        ensures { self.new ≡ record self.old { relations = relations } }
    {
        self.relations = relations;
    }

    /// It says something else that is about the whole program. All else stays.
    pub fn set_summary(&mut self, summary: Summary)
        ensures { self.new ≡ record self.old { summary = summary } }
    {
        self.summary = summary;
    }

    /// It says nothing of the whole program any more. All else stays.
    #[inline(always)]
    pub fn clear_summary(&mut self)
        ensures { self.new ≡ record self.old { summary = no_summary } }
    {
        self.summary.clear();
    }

    /// A copy with another core.
    pub fn with_core(&self, core: Core) -> Abs
        ensures { result ≡ record self.now { core = core } }
    {
        let mut state = Abs::new(core);
        state.relations = self.relations;
        state.summary = self.summary.copied();
        if state
            .items
            .try_extend_from_slice(self.items.as_slice())
            .is_err()
        {
            unreachable!();
        }
        if state
            .cells
            .try_extend_from_slice(self.cells.as_slice())
            .is_err()
        {
            unreachable!();
        }
        state
    }
}
