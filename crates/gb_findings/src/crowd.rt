//! Where a run that was too large has its nodes and procedures, and what multiplies them.

use crate::path::node_at;
use gb_fixpoint::code_point::CodePoint;
use gb_fixpoint::gb_ops::op::Register;
use gb_fixpoint::register_set::REGISTERS;
use gb_fixpoint::types::{Run, RunNode};
use gb_fixpoint::{Val, cell_at};
use gb_symbols::{SourceLine, Symbols};
use std::alloc::{AllocError, Global};
use std::collections::{BTreeMap, BTreeSet};

/// The most places that are named.
const PLACES: usize = 5;

/// How much there is at a place.
#[derive(Clone, Copy, PartialEq, Eq, PartialOrd, Ord)]
pub struct Count {
    pub count: usize,
    pub point: CodePoint,
}

/// The limit that a run reached.
#[derive(Clone, Copy, PartialEq, Eq)]
pub enum ReachedLimit {
    /// So many nodes.
    Nodes(usize),
    Procedures,
    Steps,
}

/// What keeps states of one place apart.
#[derive(Clone, Copy, PartialEq, Eq)]
pub enum Multiplier {
    Register(Register),
    /// The byte of RAM at an address.
    Cell(u16),
    /// The ROM bank that is mapped.
    Bank,
    /// What is on the stack.
    Stack,
}

/// What keeps most states of a place apart, and how many values it has there.
#[derive(Clone, Copy, PartialEq, Eq)]
pub struct Multiplied {
    pub by: Multiplier,
    pub values: usize,
}

/// A run that was too large.
#[derive(Drop)]
pub struct Crowd {
    pub nodes: usize,
    pub procedures: usize,
    pub limit: ReachedLimit,
    /// The places with most nodes, the greatest count first.
    pub crowded: Vec<Count>,
    /// What multiplies the nodes of the first of these.
    pub multiplied: Option<Multiplied>,
    /// The places at which most procedures begin.
    pub entered: Vec<Count>,
    /// What multiplies the procedures of the first of these.
    pub parted: Option<Multiplied>,
}

impl Crowd {
    /// The author's line with most nodes.
    pub fn line<'a>(&self, symbols: &Symbols<'a>) -> Option<SourceLine<'a>> {
        for count in &self.crowded {
            let CodePoint { address, bank } = count.point;
            if let Some(bank) = bank
                && let Some(line) = symbols.line(bank, address)
            {
                return Some(line);
            }
        }
        None
    }
}

/// How much there is at each place.
#[derive(Drop)]
struct Counts {
    alloc: Global,
    counts: BTreeMap<CodePoint, usize>,
}

impl Counts {
    /// Nothing was counted yet.
    fn new(alloc: Global) -> Counts {
        Counts {
            alloc,
            counts: BTreeMap::new(alloc),
        }
    }

    /// One more at a place.
    fn add(&mut self, point: CodePoint) -> Result<(), AllocError> {
        let count = self.counts.entry(point)?.or_insert(0usize);
        *count = count.saturating_add(1);
        Ok(())
    }

    /// Adds the counts of places with more than one to a list.
    fn gather(&self, list: &mut Vec<Count>) -> Result<(), AllocError> {
        for (point, count) in self.counts.iter() {
            if *count > 1 {
                list.push(Count {
                    count: *count,
                    point: *point,
                })?;
            }
        }
        Ok(())
    }

    /// The greatest counts above 1, the greatest first.
    fn greatest(&self) -> Result<Vec<Count>, AllocError> {
        let mut greatest = Vec::new(self.alloc);
        self.gather(&mut greatest)?;
        greatest.sort()?;
        greatest.reverse();
        greatest.truncate(PLACES);
        Ok(greatest)
    }
}

/// The limit that a run reached.
fn limit_of(run: &Run<'_>) -> ReachedLimit {
    let most = run.configuration.limit;
    if run.nodes.len() > most {
        ReachedLimit::Nodes(most)
    } else if run.procedures.len() >= run.configuration.edition.procedures() {
        ReachedLimit::Procedures
    } else {
        ReachedLimit::Steps
    }
}

/// The nodes of one place.
#[derive(Drop)]
struct NodesAt<'a> {
    alloc: Global,
    nodes: Vec<&'a RunNode>,
}

impl<'a> NodesAt<'a> {
    /// How many different values something has at them.
    fn count(&self, by: Multiplier) -> Result<usize, AllocError> {
        let mut values = BTreeSet::new(self.alloc);
        for node in &self.nodes {
            values.insert(value_of(by, node))?;
        }
        Ok(values.len())
    }

    /// What has more values than the most so far.
    fn raise(&self, most: &mut Multiplied, by: Multiplier) -> Result<(), AllocError> {
        let values = self.count(by)?;
        if most.values < values {
            *most = Multiplied { by, values };
        }
        Ok(())
    }

    /// What has most values, if something has more than one.
    fn most(&self) -> Result<Option<Multiplied>, AllocError> {
        let mut most = Multiplied {
            by: Multiplier::Bank,
            values: 1,
        };
        self.raise(&mut most, Multiplier::Bank)?;
        for register in REGISTERS {
            self.raise(&mut most, Multiplier::Register(register))?;
        }
        if let Some(node) = self.nodes.first() {
            for cell in node.state.cells() {
                self.raise(&mut most, Multiplier::Cell(cell.address))?;
            }
        }
        self.raise(&mut most, Multiplier::Stack)?;
        Ok(if most.values > 1 { Some(most) } else { None })
    }
}

/// An interval as a number.
fn val_value(val: Val) -> u64 {
    u64::from(val.lo) << 8 | u64::from(val.hi)
}

/// What something is at a node, as a number that nothing else has: of the stack how many bytes, and which of the words that keep
/// nodes apart.
fn value_of(by: Multiplier, node: &RunNode) -> u64 {
    let core = node.state.core();
    match by {
        Multiplier::Register(register) => val_value(core.registers.get(register)),
        Multiplier::Cell(address) => val_value(cell_at(address, node.state.cells())),
        Multiplier::Bank => u64::from(core.ctl.bank_lo) << 16 | u64::from(core.ctl.bank_hi),
        Multiplier::Stack => (node.key.words as u64) << 16 | node.key.items as u64,
    }
}

/// The places with most nodes, and what multiplies the first.
fn crowded(alloc: Global, run: &Run<'_>) -> Result<(Vec<Count>, Option<Multiplied>), AllocError> {
    let mut counts = Counts::new(alloc);
    for node in &run.nodes {
        counts.add(node.key.point())?;
    }
    let greatest = counts.greatest()?;
    let mut nodes = Vec::new(alloc);
    if let Some(count) = greatest.first() {
        for node in &run.nodes {
            if node.key.point() == count.point {
                nodes.push(node)?;
            }
        }
    }
    let multiplied = NodesAt { alloc, nodes }.most()?;
    Ok((greatest, multiplied))
}

/// The places at which most procedures begin, and what multiplies the first.
fn entered(alloc: Global, run: &Run<'_>) -> Result<(Vec<Count>, Option<Multiplied>), AllocError> {
    let mut counts = Counts::new(alloc);
    for procedure in &run.procedures {
        counts.add(procedure.key.point())?;
    }
    let greatest = counts.greatest()?;
    let mut nodes = Vec::new(alloc);
    if let Some(count) = greatest.first() {
        for procedure in &run.procedures {
            if procedure.key.point() == count.point
                && let Some(node) = node_at(run, procedure.entry)
            {
                nodes.push(node)?;
            }
        }
    }
    let parted = NodesAt { alloc, nodes }.most()?;
    Ok((greatest, parted))
}

impl Crowd {
    /// Where a run has its nodes and procedures.
    ///
    /// # Errors
    ///
    /// Where memory ran out.
    pub fn of(alloc: Global, run: &Run<'_>) -> Result<Crowd, AllocError> {
        let (crowded, multiplied) = crowded(alloc, run)?;
        let (entered, parted) = entered(alloc, run)?;
        Ok(Crowd {
            nodes: run.nodes.len(),
            procedures: run.procedures.len(),
            limit: limit_of(run),
            crowded,
            multiplied,
            entered,
            parted,
        })
    }
}
