//! What a run is made of: nodes, procedures, and what refinement asks of them.

use crate::probing::Arrival;
use arrayvec::ArrayVec;
use gb_joining::cause::{Failure, Wish};
use gb_joining::code_point::CodePoint;
use gb_joining::configuration::Configuration;
use gb_joining::fact_news::FactNews;
use gb_joining::gb_verify::{Abs, Rom};
use gb_joining::keys::{NodeKey, ProcedureKey};
use gb_joining::ranges::RangeSet;
use gb_joining::steps::Steps;
use std::alloc::Global;
use std::collections::{BTreeMap, BTreeSet, HashMap, HashSet};

/// A point of a procedure's code.
#[derive(Clone, Copy, PartialEq, Eq, PartialOrd, Ord, Hash)]
pub struct Spot {
    /// The number of the procedure.
    pub procedure: usize,
    pub point: CodePoint,
}

/// A way on inside a procedure, from a point of its code to the next.
#[derive(Clone, Copy, PartialEq, Eq, PartialOrd, Ord, Hash)]
pub struct Edge {
    /// The number of the procedure.
    pub procedure: usize,
    pub from: CodePoint,
    pub to: CodePoint,
}

impl Edge {
    /// Where it leads from.
    pub fn source(&self) -> Spot {
        Spot {
            procedure: self.procedure,
            point: self.from,
        }
    }
}

/// A procedure calls another one, or is interrupted by it.
#[derive(Clone, Copy, PartialEq, Eq, PartialOrd, Ord, Hash)]
pub struct CallSite {
    /// The caller's number.
    pub caller: usize,
    /// The callee's number.
    pub callee: usize,
}

/// A store of A, which isn't known, to a tracked cell.
#[derive(Clone, Copy, PartialEq, Eq, PartialOrd, Ord, Hash)]
pub struct CellStore {
    pub cell: u16,
    /// Where the store stands.
    pub spot: Spot,
}

/// A tracked cell that a procedure may read.
#[derive(Clone, Copy, PartialEq, Eq, PartialOrd, Ord)]
pub struct CellRead {
    /// The number of the procedure.
    pub procedure: usize,
    pub cell: u16,
}

/// A value that a cell's byte is compared with, or masked by.
#[derive(Clone, Copy, PartialEq, Eq, PartialOrd, Ord)]
pub struct CellPoint {
    pub cell: u16,
    pub point: u8,
}

/// A cell of a node, whose bounds go on and on.
#[derive(Clone, Copy, PartialEq, Eq, PartialOrd, Ord)]
pub struct Creep {
    pub node: usize,
    pub cell: u16,
}

/// A cell that has one value alone.
#[derive(Clone, Copy, Default, PartialEq, Eq, Hash)]
pub struct CellValue {
    pub address: u16,
    pub value: u8,
}

/// A known word on the stack or in a pair of registers, or a known byte on the stack.
#[derive(Clone, Copy, Default, PartialEq, Eq, Hash)]
pub struct PlacedWord {
    /// The number of its first byte on the stack, or a number above these.
    pub place: u16,
    pub word: u16,
}

/// When a node's turn comes: those of procedures that were found later come first, so that callees are finished
/// before their callers go on, and of one procedure those at lower addresses, so that loops are finished before what
/// is behind them.
#[derive(Clone, Copy, PartialEq, Eq, PartialOrd, Ord)]
pub struct Turn {
    /// How many procedures could still be found behind the node's.
    pub rank: usize,
    pub address: u16,
    pub node: usize,
    /// 0 where the node's instruction is executed; else the number of a handler that may interrupt it, behind which it goes on.
    pub handler: usize,
}

/// A set of states at a point of a procedure's code.
#[derive(Drop)]
pub struct RunNode {
    pub key: NodeKey,
    pub state: Abs,
    /// How often its state grew.
    pub growths: u32,
    /// The node that it was first reached from: where a procedure was entered, the node of the first call or dispatch.
    /// None for main's entry.
    pub via: Option<usize>,
    /// Whether it waits in the queue.
    pub is_queued: bool,
}

impl RunNode {
    /// Where it is.
    pub fn spot(&self) -> Spot {
        Spot {
            procedure: self.key.procedure,
            point: self.key.point(),
        }
    }
}

/// A procedure: main, or what is called at a target or dispatched, in states of one key.
#[derive(Drop)]
pub struct RunProcedure {
    pub key: ProcedureKey,
    /// The number of its first node, once it was entered.
    pub entry: Option<usize>,
    /// The numbers of its nodes.
    pub nodes: Vec<usize>,
    /// Whether states of it have links with a base.
    pub has_bases: bool,
    /// What it is said to return with, if it has returned yet.
    pub exit: Option<Abs>,
    /// What it returns with, where more is known than it is said to: by the rules of version 4.
    pub exact: Option<Abs>,
    /// How often its exit grew.
    pub growths: u32,
    /// What it and its callees may write.
    pub ranges: RangeSet,
    /// The numbers of the nodes that call it, or that it may interrupt.
    pub sites: BTreeSet<usize>,
    /// The numbers of the procedures that it calls, or that may interrupt it.
    pub callees: BTreeSet<usize>,
    /// How many bytes below its base it saves SP first: with so many it may come back there, by the rules of version 4.
    pub mark: Option<u8>,
    /// The bytes of stack that it needs, once gb_draft's `find_needs` has found them.
    pub need: usize,
}

/// One fixpoint under a configuration.
#[derive(Drop)]
pub struct Run<'a> {
    pub rom: &'a Rom<'a>,
    pub configuration: Configuration,
    pub nodes: Vec<RunNode>,
    /// Procedure 0 is main.
    pub procedures: Vec<RunProcedure>,
    /// The numbers of the nodes at a point of a procedure's code.
    pub at: HashMap<Spot, Vec<usize>>,
    pub edges: BTreeSet<Edge>,
    /// Targets of backward ways.
    pub heads: HashSet<Spot>,
    /// Cells that were read at a single address, or fetched.
    pub wanted: BTreeSet<u16>,
    /// Cells that hold code.
    pub fetched: BTreeSet<u16>,
    /// The tracked cells that procedures may read.
    pub reads: BTreeSet<CellRead>,
    /// Cells that were stored to each by itself, as a loop does whose rounds are told apart.
    pub copied: BTreeSet<u16>,
    /// Cells that were stored to each by itself, with a value that says something: of others no state would know anything.
    pub set: BTreeSet<u16>,
    /// The addresses whose bytes shadow a register of the controller in some state, by the rules of version 4.
    pub shadows: BTreeSet<u16>,
    /// Cells that an instruction names: LD A,(n16) and LDH A,(n8).
    pub named: BTreeSet<u16>,
    /// Stores to several addresses that dropped tracked cells.
    pub killers: BTreeSet<Spot>,
    /// Stores below 8000 of a value that isn't known.
    pub switches: BTreeSet<Spot>,
    /// Stores of A, which isn't known, to tracked cells.
    pub stores: BTreeSet<CellStore>,
    pub calls: BTreeSet<CallSite>,
    /// Where widening stops: the configuration's points, and the values that were compared with or loaded.
    pub points: BTreeSet<u8>,
    /// What LD SP,n16 loads, once it was met.
    pub sp: Option<u16>,
    /// The lowest address that a known stack reached.
    pub lowest: u16,
    /// The failures at places that were given up, the first of each.
    pub failures: Vec<Failure>,
    /// The failures at other places that the run went past, the first of each.
    pub passed: Vec<Failure>,
    /// What it wants its configuration to say, once for each target.
    pub wishes: Vec<Wish>,
    /// Whether it met a wish after a failure that it went past.
    pub is_wish_left: bool,
    /// How many nodes are stepped at most, once there is one of these.
    pub last_step: u64,
    /// How many nodes were stepped.
    pub steps: u64,
    /// What it learns of bytes of RAM.
    pub fact_news: FactNews,
    pub alloc: Global,
    /// The configuration's tracked cells, in order.
    pub tracked: Vec<u16>,
    /// The addresses whose bytes procedures but main keep, in order.
    pub kept: ArrayVec<u16, 16>,
    pub node_index: HashMap<NodeKey, usize>,
    pub procedure_index: HashMap<ProcedureKey, usize>,
    /// The numbers of the values that the key cells had, from 1 on.
    pub cell_index: HashMap<Vec<CellValue>, usize>,
    /// The numbers of the words that tell nodes apart, from 1 on.
    pub word_index: HashMap<Vec<PlacedWord>, usize>,
    /// The addresses behind inlined calls.
    pub returns: BTreeSet<u16>,
    /// Calls that close a cycle of procedures.
    pub cyclic: BTreeSet<CallSite>,
    pub queue: BTreeSet<Turn>,
    pub widening: Steps,
    /// Where the widening of single cells stops.
    pub cell_points: BTreeSet<CellPoint>,
    /// How often cells were widened.
    pub creeps: BTreeMap<Creep, u8>,
    /// Where the steps lead that are only probed; None while the run goes on.
    pub probed: Option<Vec<Arrival>>,
}
