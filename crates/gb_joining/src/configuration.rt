//! How finely a run tells states apart.

use crate::code_point::CodePoint;
use crate::limits::{MANY_PROCEDURES, NODES, PROCEDURES};
use crate::register_set::RegisterSet;
use gb_verify::Rules;
use gb_verify::gb_domain::summary::Fact;
use gb_verify::gb_ops::machine::Region;
use gb_verify::gb_ops::op::Operand;
use std::alloc::{AllocError, Global};
use std::collections::{BTreeSet, HashMap, HashSet};

/// A point of the code of the procedures that begin at another one.
#[derive(Clone, Copy, PartialEq, Eq, PartialOrd, Ord, Hash)]
pub struct TargetPlace {
    /// Where the procedure begins.
    pub target: CodePoint,
    pub point: CodePoint,
}

/// A cell that the procedures of a target, or what they call, may read or write.
#[derive(Clone, Copy, PartialEq, Eq, PartialOrd, Ord, Hash)]
pub struct TouchedCell {
    pub target: CodePoint,
    pub cell: u16,
}

/// How many cells the procedures of a target are parted by at most.
const ENTRY_CELLS: usize = 4;

/// The cells by whose known values the procedures of a target are parted.
#[derive(Clone, Copy, Default, PartialEq, Eq)]
pub struct EntryCells {
    /// 0 where there are fewer.
    cells: [u16; ENTRY_CELLS],
}

impl EntryCells {
    pub fn contains(&self, cell: u16) -> bool {
        self.cells.iter().any(|member| *member == cell)
    }

    /// Whether there is room for one more.
    pub fn has_room(&self) -> bool {
        self.contains(0)
    }

    /// These, and a cell if there is room for it.
    pub fn with(&self, cell: u16) -> EntryCells {
        let mut more = *self;
        if !self.contains(cell) {
            for member in more.cells.iter_mut() {
                if *member == 0 {
                    *member = cell;
                    break;
                }
            }
        }
        more
    }
}

/// By the rules of which versions of certificates states are taken on.
#[derive(Clone, Copy, PartialEq, Eq)]
pub enum Edition {
    /// Of versions 1 and 2.
    Early,
    /// Of version 3.
    Third,
    /// Of version 4, whose states know what the whole program does to memory and to the controller.
    Fourth,
}

impl Edition {
    /// The rules by which single states are taken on.
    pub fn rules(self) -> Rules {
        match self {
            Edition::Early => Rules::Simple,
            Edition::Third | Edition::Fourth => Rules::Extended,
        }
    }

    /// Whether states know of the whole program.
    pub fn is_fourth(self) -> bool {
        self == Edition::Fourth
    }

    /// The most procedures of a certificate.
    pub fn procedures(self) -> usize {
        match self {
            Edition::Early | Edition::Third => PROCEDURES,
            Edition::Fourth => MANY_PROCEDURES,
        }
    }
}

/// What refinement has decided so far. Each failure adds an edit; the last one may be taken back, and at the end what a
/// certificate doesn't need is.
#[derive(Clone, Drop)]
pub struct Configuration {
    /// The rules by which states are taken on.
    pub edition: Edition,
    /// The stack region.
    pub region: Region,
    /// Whether LD SP,n16 was met, by which the region is set.
    pub is_stack_seen: bool,
    /// Whether the user has said where the region lies.
    pub is_stack_given: bool,
    /// The memory cells that are kept, as many as a state holds.
    pub tracked: BTreeSet<u16>,
    /// What the certificate says of RAM for the whole program, by the rules of version 4.
    pub facts: Vec<Fact>,
    /// How many of them hold wherever the start is done; the others come last.
    pub early_facts: usize,
    /// The addresses whose bytes procedures but main keep: by the rules of version 4, as many as one names.
    pub kept: BTreeSet<u16>,
    /// Where the known registers are part of the key.
    pub keyed: HashSet<TargetPlace>,
    /// Where they are while a pointer is at a byte that is kept: in loops that copy code to RAM, and other bytes elsewhere.
    pub copied: HashSet<TargetPlace>,
    /// Where H and D are taken value by value, while they have at most 8 values, and are part of the key.
    pub paged: HashSet<TargetPlace>,
    /// The registers of which one is taken value by value on arrival: of those that aren't known the one with the fewest
    /// values. Covering goes value by value over one register alone, so another one has to wait for the next address.
    pub split: HashMap<TargetPlace, RegisterSet>,
    /// The registers whose known values are part of the key: counters of outer loops, whose rounds are told apart.
    pub counted: HashMap<TargetPlace, RegisterSet>,
    /// The bytes of the stack whose known values are part of the key, a bit for each of the first 64 by its place: counters that are
    /// kept on the stack.
    pub counted_items: HashMap<TargetPlace, u64>,
    /// Where the carry is part of the key beside the known registers: it is read from there on.
    pub carried: HashSet<TargetPlace>,
    /// The registers of which is part of the key whether they are 0, or FF: counters that begin at 0, or that are counted down
    /// before they are looked at, where the first or the last round is told apart.
    pub peeled: HashMap<TargetPlace, RegisterSet>,
    /// Comparisons of a known number with what is here: the states in which that is greater are told apart up to the branch behind.
    pub compared: HashMap<TargetPlace, Operand>,
    /// By where procedures begin, the registers by whose known values they are parted.
    pub parted: HashMap<CodePoint, RegisterSet>,
    /// Where procedures begin that are parted by the controller, by the rules of version 3; by those of versions 1 and 2 all are.
    pub by_controller: HashSet<CodePoint>,
    /// Where procedures begin whose nodes are told apart by the bank though RAM shadows it.
    pub banked: HashSet<CodePoint>,
    /// By where procedures begin, the cells by whose known values they are parted.
    pub by_cells: HashMap<CodePoint, EntryCells>,
    /// Where procedures begin of which it is known which key cells they or what they call may read or write.
    pub known_targets: HashSet<CodePoint>,
    /// The cells that these may.
    pub touched: BTreeSet<TouchedCell>,
    /// Where procedures begin that are not parted by the controller and the key cells.
    pub flat: HashSet<CodePoint>,
    /// The cells whose known values are part of every key: shadows of the bank, states.
    pub key_cells: BTreeSet<u16>,
    /// The targets of calls that are followed in the caller, and begin no procedure.
    pub inlined: HashSet<CodePoint>,
    /// Where procedures begin whose base is known, so that there is one for each depth.
    pub based: HashSet<CodePoint>,
    /// By where procedures begin, the bytes above the return word that they take over.
    pub arguments: HashMap<CodePoint, u8>,
    /// Places with a failure that stands. Nothing goes on from there; the run goes on elsewhere.
    pub given_up: HashSet<TargetPlace>,
    /// The numbers of plans that were taken back, and are not to be tried again.
    pub taken_back: BTreeSet<u64>,
    /// The values at which widening stops, besides 0 and 255.
    pub points: BTreeSet<u8>,
    /// The most nodes.
    pub limit: usize,
}

/// The bytes of a return word.
const RETURN_WORD: u8 = 2;

/// Where widening stops at first.
const POINTS: [u8; 16] = [0, 1, 2, 3, 4, 7, 8, 15, 16, 31, 32, 63, 64, 127, 128, 255];

impl Configuration {
    /// The coarsest one. Its region is that of the stack at power-up, one word below FFFE.
    pub fn new(alloc: Global, edition: Edition) -> Result<Configuration, AllocError> {
        Ok(Configuration {
            edition,
            region: Region {
                first: 0xFFFC,
                last: 0xFFFD,
            },
            is_stack_seen: false,
            is_stack_given: false,
            tracked: BTreeSet::new(alloc),
            facts: Vec::new(alloc),
            early_facts: 0,
            kept: BTreeSet::new(alloc),
            keyed: HashSet::new(alloc),
            copied: HashSet::new(alloc),
            paged: HashSet::new(alloc),
            split: HashMap::new(alloc),
            counted: HashMap::new(alloc),
            counted_items: HashMap::new(alloc),
            carried: HashSet::new(alloc),
            peeled: HashMap::new(alloc),
            compared: HashMap::new(alloc),
            parted: HashMap::new(alloc),
            by_controller: HashSet::new(alloc),
            banked: HashSet::new(alloc),
            by_cells: HashMap::new(alloc),
            known_targets: HashSet::new(alloc),
            touched: BTreeSet::new(alloc),
            flat: HashSet::new(alloc),
            key_cells: BTreeSet::new(alloc),
            inlined: HashSet::new(alloc),
            based: HashSet::new(alloc),
            arguments: HashMap::new(alloc),
            given_up: HashSet::new(alloc),
            taken_back: BTreeSet::new(alloc),
            points: BTreeSet::from_array(alloc, POINTS)?,
            limit: NODES,
        })
    }

    /// How many of its caller's bytes a procedure takes over that begins at a target: by the rules of versions 1 and 2
    /// none.
    pub fn taken_at(&self, target: CodePoint) -> u8 {
        match self.edition.rules() {
            Rules::Simple => 0,
            Rules::Extended => RETURN_WORD.saturating_add(self.arguments_at(target)),
        }
    }

    /// The bytes above the return word that a procedure takes over.
    pub fn arguments_at(&self, target: CodePoint) -> u8 {
        match self.arguments.get(&target) {
            Some(bytes) => *bytes,
            None => 0,
        }
    }

    /// Whether the procedures that begin at a target are parted by the controller.
    pub fn is_by_controller(&self, target: CodePoint) -> bool {
        let is_asked = self.edition == Edition::Early || self.by_controller.contains(&target);
        is_asked && !self.flat.contains(&target)
    }

    /// Whether a key cell is part of the keys of the procedures that begin at a target: unless it is known that they don't touch it, or
    /// its byte is kept, so that callers know it behind them.
    pub fn is_key_at(&self, target: CodePoint, cell: u16) -> bool {
        self.key_cells.contains(&cell)
            && !self.kept.contains(&cell)
            && (!self.known_targets.contains(&target)
                || self.touched.contains(&TouchedCell { target, cell }))
    }

    /// The cells by which the procedures that begin at a target are parted, besides the key cells.
    pub fn entry_cells(&self, target: CodePoint) -> EntryCells {
        match self.by_cells.get(&target) {
            Some(cells) => *cells,
            None => EntryCells::default(),
        }
    }

    /// The bytes of the stack whose known values are part of the key at a place.
    pub fn items_at(&self, place: TargetPlace) -> u64 {
        match self.counted_items.get(&place) {
            Some(items) => *items,
            None => 0,
        }
    }

    /// Calls of a target are followed in their callers from now on.
    pub fn inline(&mut self, target: CodePoint) -> Result<(), AllocError> {
        self.inlined.insert(target)?;
        self.based.remove(&target);
        self.arguments.remove(&target);
        Ok(())
    }
}
