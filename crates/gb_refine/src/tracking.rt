//! Which memory cells are tracked: at most 64 by the rules of version 3, 32 by the others; code and what keys go by first. Where
//! there are more, those go first of which a run knew nothing, and others get their room.

use crate::rounds::{News, Refinement};
use gb_prune::gb_ops::machine::Region;
use gb_prune::{Configuration, FactTable, Run, is_ram};
use std::alloc::{AllocError, Global};
use std::collections::BTreeSet;

/// What has been learnt of cells over all rounds.
#[derive(Drop)]
pub(crate) struct Cells {
    /// Cells that were read and are not tracked, since they can't be, or since others matter more.
    pub(crate) untracked: BTreeSet<u16>,
    /// Those of them for which there was no room, and that no run had.
    pub(crate) left_out: BTreeSet<u16>,
    /// Those that got room later: if they lose it again, they don't come back, since others would have to go for them each time.
    back: BTreeSet<u16>,
    /// Cells that the last run tracked and of which no node knew anything.
    idle: BTreeSet<u16>,
    /// Cells that instructions name.
    pub(crate) named: BTreeSet<u16>,
    /// Cells that hold code.
    pub(crate) fetched: BTreeSet<u16>,
    /// Whether it is sought what bytes hold throughout, by the rules of version 4.
    pub(crate) seeks_facts: bool,
    /// What bytes hold throughout.
    pub(crate) facts: FactTable,
    /// Whether the last run taught something new of that.
    pub(crate) are_facts_new: bool,
}

/// How much a cell matters; the greatest goes first where there are too many.
#[derive(Clone, Copy, PartialEq, Eq, PartialOrd, Ord)]
struct Rank {
    /// 0 for code and keys, 1 for cells that instructions name, 2 for others, 3 for those of which nothing is known.
    class: u8,
    is_work_ram: bool,
    address: u16,
}

impl Cells {
    /// Nothing yet.
    pub(crate) fn new(alloc: Global) -> Cells {
        Cells {
            untracked: BTreeSet::new(alloc),
            left_out: BTreeSet::new(alloc),
            back: BTreeSet::new(alloc),
            idle: BTreeSet::new(alloc),
            named: BTreeSet::new(alloc),
            fetched: BTreeSet::new(alloc),
            seeks_facts: false,
            facts: FactTable::new(alloc),
            are_facts_new: false,
        }
    }

    /// Takes over what a run met.
    pub(crate) fn learn(&mut self, alloc: Global, run: &Run<'_>) -> Result<(), AllocError> {
        add_all(&run.named, &mut self.named)?;
        add_all(&run.fetched, &mut self.fetched)?;
        self.are_facts_new = self.seeks_facts && self.facts.learn(alloc, run)?;
        let configuration = &run.configuration;
        self.idle = if configuration.tracked.len() < configuration.edition.rules().cell_room() {
            BTreeSet::new(alloc)
        } else {
            idle_cells(alloc, run)?
        };
        Ok(())
    }

    /// Cells for which there was no room, as many as there are tracked ones of which nothing is known.
    pub(crate) fn add_waiting(&self, cells: &mut Vec<u16>) -> Result<(), AllocError> {
        let mut room = self.idle.len();
        for cell in &self.left_out {
            if room > 0 && !self.back.contains(cell) {
                cells.push(*cell)?;
                room = room.saturating_sub(1);
            }
        }
        Ok(())
    }

    /// The cells that a run wants and that aren't tracked, but might be. Where there isn't room for all, as where a loop reads
    /// through memory byte by byte, those are left out of which nothing would be known.
    pub(crate) fn missing(&self, alloc: Global, run: &Run<'_>) -> Result<Vec<u16>, AllocError> {
        let tracked = &run.configuration.tracked;
        let mut missing = Vec::new(alloc);
        for cell in &run.wanted {
            if !self.untracked.contains(cell) && !tracked.contains(cell) {
                missing.push(*cell)?;
            }
        }
        let room = run.configuration.edition.rules().cell_room();
        if tracked.len().saturating_add(missing.len()) <= room {
            return Ok(missing);
        }
        let mut telling = Vec::new(alloc);
        for cell in &missing {
            if may_be_known(run, *cell) {
                telling.push(*cell)?;
            }
        }
        Ok(telling)
    }

    fn rank(&self, configuration: &Configuration, cell: u16) -> Rank {
        let is_key = configuration.key_cells.contains(&cell) || configuration.kept.contains(&cell);
        let class = if self.fetched.contains(&cell) || is_key {
            0
        } else if self.idle.contains(&cell) {
            3
        } else if self.named.contains(&cell) {
            1
        } else {
            2
        };
        Rank {
            class,
            is_work_ram: cell < 0xFF00,
            address: cell,
        }
    }

    /// The tracked cell that matters least.
    fn least(&self, configuration: &Configuration) -> Option<u16> {
        let mut least: Option<Rank> = None;
        for cell in configuration.tracked.iter() {
            let rank = self.rank(configuration, *cell);
            let is_less = match least {
                None => true,
                Some(other) => other < rank,
            };
            if is_less {
                least = Some(rank);
            }
        }
        match least {
            None => None,
            Some(rank) => Some(rank.address),
        }
    }

    /// A cell is tracked no more, for good.
    fn drop_cell(
        &mut self,
        configuration: &mut Configuration,
        cell: u16,
    ) -> Result<(), AllocError> {
        configuration.tracked.remove(&cell);
        self.untracked.insert(cell)?;
        Ok(())
    }

    /// Tracks more cells, those that can be; where they are more than a state holds, those that matter least go.
    pub(crate) fn track(
        &mut self,
        configuration: &mut Configuration,
        more: &[u16],
    ) -> Result<(), AllocError> {
        for cell in more {
            if is_ram(*cell) && !meets(configuration.region, *cell) {
                self.untracked.remove(cell);
                if self.left_out.contains(cell) {
                    self.left_out.remove(cell);
                    self.back.insert(*cell)?;
                }
                configuration.tracked.insert(*cell)?;
            } else {
                self.untracked.insert(*cell)?;
            }
        }
        for _ in 0..more.len() {
            if configuration.tracked.len() <= configuration.edition.rules().cell_room() {
                break;
            }
            let Some(cell) = self.least(configuration) else {
                break
            };
            self.drop_cell(configuration, cell)?;
            if !self.idle.contains(&cell) {
                self.left_out.insert(cell)?;
            }
        }
        Ok(())
    }

    /// The stack region gets another place: no cell lies in it.
    pub(crate) fn set_region(
        &mut self,
        alloc: Global,
        configuration: &mut Configuration,
        region: Region,
    ) -> Result<(), AllocError> {
        configuration.region = region;
        let inside = cells_inside(alloc, region, &configuration.tracked)?;
        self.drop_cells(configuration, &inside)
    }

    fn drop_cells(
        &mut self,
        configuration: &mut Configuration,
        cells: &[u16],
    ) -> Result<(), AllocError> {
        for cell in cells {
            configuration.key_cells.remove(cell);
            self.drop_cell(configuration, *cell)?;
        }
        Ok(())
    }
}

/// Whether something might be known of a cell: a store has set it, it holds code, or an instruction names it and what follows may
/// compare it.
fn may_be_known(run: &Run<'_>, cell: u16) -> bool {
    run.set.contains(&cell) || run.named.contains(&cell) || run.fetched.contains(&cell)
}

/// The cells that a run tracked and of which no node of it knew anything.
fn idle_cells(alloc: Global, run: &Run<'_>) -> Result<BTreeSet<u16>, AllocError> {
    let mut idle = run.configuration.tracked.clone()?;
    for node in &run.nodes {
        for cell in node.state.cells() {
            idle.remove(&cell.address);
        }
    }
    for cell in &run.configuration.key_cells {
        idle.remove(cell);
    }
    Ok(idle)
}

fn add_all(more: &BTreeSet<u16>, cells: &mut BTreeSet<u16>) -> Result<(), AllocError> {
    for cell in more {
        cells.insert(*cell)?;
    }
    Ok(())
}

/// The cells that lie in the stack region.
fn cells_inside(
    alloc: Global,
    region: Region,
    cells: &BTreeSet<u16>,
) -> Result<Vec<u16>, AllocError> {
    let mut inside = Vec::new(alloc);
    for cell in cells {
        if meets(region, *cell) {
            inside.push(*cell)?;
        }
    }
    Ok(inside)
}

/// Whether a cell lies in the stack region.
fn meets(region: Region, cell: u16) -> bool {
    region.first <= cell && cell <= region.last
}

impl News {
    /// Whether there is nothing new.
    pub(crate) fn is_empty(&self) -> bool {
        let is_of_cells = self.cells.is_empty() && self.kept.is_empty();
        is_of_cells && self.points.is_empty() && !self.has_facts
    }
}

impl Refinement<'_> {
    /// The next run has the facts that are known by now.
    pub(crate) fn set_facts(&mut self) -> Result<(), AllocError> {
        if self.cells.seeks_facts {
            let region = self.configuration.region;
            let ordered = self.cells.facts.facts(self.alloc, region)?;
            self.configuration.early_facts = ordered.early;
            self.configuration.facts = ordered.facts;
        }
        Ok(())
    }
}
