//! A run from power-up to the fixpoint.

use crate::stacks::main_base;
use crate::types::{Run, RunProcedure, Spot, Turn};
use arrayvec::ArrayVec;
use gb_joining::cause::{Cause, Failure, RunEnd, Wish};
use gb_joining::code_point::CodePoint;
use gb_joining::configuration::{Configuration, TargetPlace};
use gb_joining::fact_news::FactNews;
use gb_joining::gb_ops::op::Register;
use gb_joining::gb_verify::check::core_at_power_up;
use gb_joining::gb_verify::{Abs, Rom, Rules, known_bytes};
use gb_joining::keys::{NodeKey, ProcedureKey};
use gb_joining::limits::{DEAR_STEPS, MANY_PROCEDURES, RUN_STEPS, STEPS_PAST};
use gb_joining::ranges::RangeSet;
use gb_joining::register_set::RegisterSet;
use gb_joining::steps::Steps;
use gb_joining::stop::RunStop;
use std::alloc::{AllocError, Global};
use std::collections::{BTreeMap, BTreeSet, HashMap, HashSet};
use std::mem;

/// Where main begins.
const START: CodePoint = CodePoint {
    address: 0x0100,
    bank: Some(0),
};

impl RunProcedure {
    pub(crate) fn new(alloc: Global, key: ProcedureKey) -> RunProcedure {
        RunProcedure {
            key,
            entry: None,
            nodes: Vec::new(alloc),
            has_bases: false,
            exit: None,
            exact: None,
            growths: 0,
            ranges: RangeSet::new(),
            sites: BTreeSet::new(alloc),
            callees: BTreeSet::new(alloc),
            mark: None,
            need: 0,
        }
    }
}

/// The addresses whose bytes procedures but main keep, in order.
fn kept_addresses(configuration: &Configuration) -> ArrayVec<u16, 16> {
    let mut kept = ArrayVec::new();
    if configuration.edition.is_fourth() {
        for address in configuration.kept.iter() {
            let _ = kept.try_push(*address);
        }
    }
    kept
}

impl<'a> Run<'a> {
    /// A run that begins with nothing.
    pub fn new(
        alloc: Global,
        rom: &'a Rom<'a>,
        configuration: &Configuration,
    ) -> Result<Run<'a>, AllocError> {
        let points = configuration.points.clone()?;
        let tracked = configuration.tracked.iter().copied().collect(alloc)?;
        let widening = Steps::new(&points);
        Ok(Run {
            rom,
            configuration: configuration.clone()?,
            nodes: Vec::new(alloc),
            procedures: Vec::new(alloc),
            at: HashMap::new(alloc),
            edges: BTreeSet::new(alloc),
            heads: HashSet::new(alloc),
            wanted: BTreeSet::new(alloc),
            fetched: BTreeSet::new(alloc),
            reads: BTreeSet::new(alloc),
            copied: BTreeSet::new(alloc),
            set: BTreeSet::new(alloc),
            shadows: BTreeSet::new(alloc),
            named: BTreeSet::new(alloc),
            killers: BTreeSet::new(alloc),
            switches: BTreeSet::new(alloc),
            stores: BTreeSet::new(alloc),
            calls: BTreeSet::new(alloc),
            points,
            sp: None,
            lowest: u16::MAX,
            failures: Vec::new(alloc),
            passed: Vec::new(alloc),
            wishes: Vec::new(alloc),
            is_wish_left: false,
            last_step: u64::MAX,
            steps: 0,
            fact_news: FactNews::new(alloc, configuration.facts.as_slice())?,
            alloc,
            tracked,
            kept: kept_addresses(configuration),
            node_index: HashMap::new(alloc),
            procedure_index: HashMap::new(alloc),
            cell_index: HashMap::new(alloc),
            word_index: HashMap::new(alloc),
            returns: BTreeSet::new(alloc),
            cyclic: BTreeSet::new(alloc),
            queue: BTreeSet::new(alloc),
            widening,
            cell_points: BTreeSet::new(alloc),
            creeps: BTreeMap::new(alloc),
            probed: None,
        })
    }

    /// Goes from power-up to the fixpoint, to a failure at a place that wasn't given up, or to a limit. By the rules of version 3,
    /// or where it was long, it goes on past the first failure, since others may be met besides, and so it does past wishes.
    pub fn run(&mut self) -> Result<RunEnd, AllocError> {
        match self.run_for(RUN_STEPS)? {
            Some(end) => Ok(end),
            None => Ok(self.outcome(RunEnd::TooLarge)),
        }
    }

    /// Goes on as `run` does, by at most so many steps; what it came to, if it is at its end.
    pub fn run_for(&mut self, steps: u64) -> Result<Option<RunEnd>, AllocError> {
        let end = match self.take_turns(steps) {
            Ok(false) => return Ok(None),
            Ok(true) => RunEnd::Finished,
            Err(RunStop::Failed(failure)) => RunEnd::Failed(failure),
            Err(RunStop::StackSet(sp)) => RunEnd::StackSet { sp },
            Err(RunStop::Wanted(wish)) => RunEnd::Wanted(wish),
            Err(RunStop::Crowded) => RunEnd::Crowded,
            Err(RunStop::TooLarge) => RunEnd::TooLarge,
            Err(RunStop::Memory(error)) => return Err(error),
        };
        Ok(Some(self.outcome(end)))
    }

    /// What a run came to: the first failure that it went past, or the first wish, if there is one.
    fn outcome(&self, last: RunEnd) -> RunEnd {
        match (self.passed.first(), self.wishes.first()) {
            (Some(failure), _) => RunEnd::Failed(*failure),
            (None, Some(wish)) => RunEnd::Wanted(*wish),
            (None, None) => last,
        }
    }

    /// A place is given up after the run: its failure is kept, as in a run that knows of it from the start. What the run comes to is
    /// the next failure that it went past. None where there is no other, or a wish was met in between, so that another run is due.
    pub fn stand(&mut self, place: TargetPlace) -> Result<Option<RunEnd>, AllocError> {
        let passed = mem::replace(&mut self.passed, Vec::new(self.alloc));
        for failure in &passed {
            if self.place_of(failure.node) == Some(place) {
                self.failures.push(*failure)?;
            } else {
                self.passed.push(*failure)?;
            }
        }
        match self.passed.first() {
            Some(next) if !self.is_wish_left => Ok(Some(RunEnd::Failed(*next))),
            _ => Ok(None),
        }
    }

    /// Takes at most so many turns; whether there are no more to take.
    fn take_turns(&mut self, turns: u64) -> Result<bool, RunStop> {
        if self.nodes.is_empty() {
            self.begin()?;
        }
        for _ in 0..turns {
            let Some(turn) = self.queue.pop_first() else {
                return Ok(true);
            };
            if self.steps > self.last_step {
                return Ok(true);
            }
            if self.nodes.len() > self.configuration.limit {
                return Err(RunStop::TooLarge);
            }
            self.take_turn(turn)?;
        }
        Ok(false)
    }

    /// Main is entered.
    fn begin(&mut self) -> Result<(), RunStop> {
        let region = self.configuration.region;
        let core = core_at_power_up(self.rom, region);
        let base = main_base(self.rules(), region);
        let main = RunProcedure::new(self.alloc, ProcedureKey::of_main(&core, base));
        self.procedures.push(main)?;
        self.arrive(None, NodeKey::of_entry(0, START), &Abs::new(core))
    }

    /// Steps a node, or goes on behind a handler there.
    fn take_turn(&mut self, turn: Turn) -> Result<(), RunStop> {
        let outcome = if turn.handler == 0 {
            if let Some(waiting) = self.nodes.get_mut(turn.node) {
                waiting.is_queued = false;
            }
            self.steps = self.steps.saturating_add(1);
            self.step(turn.node)
        } else {
            self.come_back(turn.node, turn.handler)
        };
        self.keep(outcome)
    }

    /// A failure at a place that was given up is kept, the first of each place, and stops nothing.
    pub(crate) fn keep(&mut self, outcome: Result<(), RunStop>) -> Result<(), RunStop> {
        match outcome {
            Err(RunStop::Failed(_) | RunStop::Wanted(_)) if self.probed.is_some() => Ok(()),
            Err(RunStop::Failed(failure)) if self.joins_banks(failure.node) => {
                let outcome = self.want_banks(failure.node);
                self.keep_wish(outcome)
            }
            Err(RunStop::Failed(failure)) if self.is_given_up(failure.node) => {
                if !self.has_failed(failure.node) {
                    self.failures.push(failure)?;
                }
                Ok(())
            }
            Err(RunStop::Failed(failure)) if self.goes_past() => self.pass(failure),
            outcome => self.keep_wish(outcome),
        }
    }

    /// A wish for a target is kept, and stops nothing where the run goes past it.
    fn keep_wish(&mut self, outcome: Result<(), RunStop>) -> Result<(), RunStop> {
        match outcome {
            Err(RunStop::Wanted(wish)) if self.goes_past() && wish.target().is_some() => {
                self.pass_wish(wish)
            }
            outcome => outcome,
        }
    }

    /// Whether a node's procedure joins banks that RAM shadows, and the node doesn't know the bank: it may be for want of that that it
    /// fails.
    fn joins_banks(&self, number: usize) -> bool {
        let Some(node) = self.nodes.get(number) else {
            return false;
        };
        let ctl = &node.state.core().ctl;
        let target = self.target(node.key.procedure);
        !self.kept.is_empty()
            && ctl.bank_lo != ctl.bank_hi
            && !self.configuration.banked.contains(&target)
    }

    /// The nodes of a node's procedure are told apart by the bank from now on.
    fn want_banks(&self, number: usize) -> Result<(), RunStop> {
        match self.nodes.get(number) {
            Some(node) => Err(RunStop::Wanted(Wish::Banks(self.target(node.key.procedure)))),
            None => Ok(()),
        }
    }

    /// Whether a run goes on past what it would stop at.
    fn goes_past(&self) -> bool {
        self.rules() == Rules::Extended || self.steps >= DEAR_STEPS
    }

    /// From the first failure or wish on the run goes half as far again as it has come.
    fn go_half_again(&mut self) {
        if self.passed.is_empty() && self.wishes.is_empty() {
            let more = (self.steps / 2).max(STEPS_PAST);
            self.last_step = self.steps.saturating_add(more);
        }
    }

    /// The run goes past a failure, and keeps the first of each place, unless it has a wish: that comes first then.
    fn pass(&mut self, failure: Failure) -> Result<(), RunStop> {
        self.go_half_again();
        if self.wishes.is_empty() && !self.is_passed(self.place_of(failure.node)) {
            self.passed.push(failure)?;
        }
        Ok(())
    }

    /// The run goes past a wish, and keeps the first for each target, unless it has gone past a failure before.
    fn pass_wish(&mut self, wish: Wish) -> Result<(), RunStop> {
        self.go_half_again();
        let is_met = self
            .wishes
            .iter()
            .any(|other| other.target() == wish.target());
        if self.passed.is_empty() && !is_met {
            self.wishes.push(wish)?;
        }
        self.is_wish_left = self.is_wish_left || !self.passed.is_empty();
        Ok(())
    }

    /// Whether the run went past a failure at a place already.
    fn is_passed(&self, place: Option<TargetPlace>) -> bool {
        for failure in &self.passed {
            if self.place_of(failure.node) == place {
                return true;
            }
        }
        false
    }

    /// A failure at a node.
    pub(crate) fn failure(node: usize, cause: Cause, registers: RegisterSet) -> RunStop {
        RunStop::Failed(Failure {
            node,
            cause,
            registers,
        })
    }

    fn is_given_up(&self, node: usize) -> bool {
        match self.place_of(node) {
            Some(place) => self.configuration.given_up.contains(&place),
            None => false,
        }
    }

    /// Whether a failure is kept at the place of a node.
    fn has_failed(&self, node: usize) -> bool {
        let place = self.place_of(node);
        self.failures
            .iter()
            .any(|failure| self.place_of(failure.node) == place)
    }

    /// A node waits for its turn.
    pub(crate) fn enqueue(&mut self, node: usize) -> Result<(), RunStop> {
        let Some(waiting) = self.nodes.get_mut(node) else {
            return Ok(());
        };
        if !waiting.is_queued {
            waiting.is_queued = true;
            let turn = Turn {
                rank: MANY_PROCEDURES.saturating_sub(waiting.key.procedure),
                address: waiting.key.address,
                node,
                handler: 0,
            };
            self.queue.insert(turn)?;
        }
        Ok(())
    }

    /// A node waits to go on behind a handler; where it waits for its turn, it does so then.
    pub(crate) fn enqueue_behind(&mut self, node: usize, handler: usize) -> Result<(), RunStop> {
        let Some(waiting) = self.nodes.get(node) else {
            return Ok(());
        };
        if !waiting.is_queued {
            let turn = Turn {
                rank: MANY_PROCEDURES.saturating_sub(waiting.key.procedure),
                address: waiting.key.address,
                node,
                handler,
            };
            self.queue.insert(turn)?;
        }
        Ok(())
    }

    /// Where a procedure begins.
    pub fn target(&self, procedure: usize) -> CodePoint {
        match self.procedures.get(procedure) {
            Some(procedure) => procedure.key.point(),
            None => START,
        }
    }

    /// The place of a node.
    pub fn place_of(&self, node: usize) -> Option<TargetPlace> {
        let key = self.nodes.get(node)?.key;
        Some(TargetPlace {
            target: self.target(key.procedure),
            point: key.point(),
        })
    }

    /// The numbers of the nodes at a point of a procedure's code.
    pub fn nodes_at(&self, spot: Spot) -> &[usize] {
        match self.at.get(&spot) {
            Some(nodes) => nodes.as_slice(),
            None => &[],
        }
    }

    /// Where an address is that an instruction at a node calls.
    pub fn point_from(&self, node: usize, address: u16) -> Option<CodePoint> {
        let ctl = &self.nodes.get(node)?.state.core().ctl;
        Some(CodePoint::of(self.rom, ctl, address))
    }

    /// The bytes of the instruction at a spot, where they are known in its first node.
    pub fn bytes_at(&self, spot: Spot) -> Option<[u8; 3]> {
        let number = self.nodes_at(spot).first()?;
        let node = self.nodes.get(*number)?;
        known_bytes(&self.program(), self.rom, &node.state, spot.point.address)
    }

    /// Whether a register has one value alone in a node.
    pub fn is_known(&self, node: usize, register: Register) -> bool {
        match self.nodes.get(node) {
            Some(node) => {
                let val = node.state.core().registers.get(register);
                val.lo == val.hi
            }
            None => false,
        }
    }
}
