//! The rounds: a run, what is learnt from where it stopped, and a finer configuration.

use crate::attempts::MORE_NODES;
use crate::failures::tell;
use crate::learning::is_no_code;
use crate::measures::{outcome_of, pairs_of, targets_of};
use crate::tracking::Cells;
use gb_findings::{Crowd, Finding, InstructionFinding, Spent};
use gb_plans::{Plan, learn_touched};
use gb_prune::gb_ops::machine::Region;
use gb_prune::limits::{
    ALL_STEPS, FEW_NODES, OBSTACLES, STEPS_A_NODE, STEPS_A_NODE_OF_MANY, TAKEN_BACK,
    TAKEN_BACK_OF_MANY,
};
use gb_prune::{
    Cause, CodePoint, Configuration, Edition, FactTable, Rom, Rules, Run, RunEnd, StackMisuse,
    TargetPlace, Wish,
};
use std::alloc::{AllocError, Global};
use std::collections::{BTreeMap, BTreeSet};

/// The bytes of a word.
pub(crate) const WORD: usize = 2;

/// The part of the nodes that are allowed, one in so many, that a run has to have left where another plan may still fit.
const SPARE_PART: usize = 4;

/// What is told while certificates are made.
pub trait SearchProgress {
    /// A round begins.
    fn round(&mut self, number: u32);

    /// A run of that round has ended with so many nodes and procedures.
    fn ran(&mut self, nodes: usize, procedures: usize);

    /// There is a certificate, and smaller ones are sought.
    fn shrinks(&mut self);

    /// Whether the search may go on. This is asked before each round and each attempt at a smaller certificate, and every
    /// 16,384 steps of a run. After the first no, what was found is given as it is.
    fn goes_on(&mut self) -> bool;

    /// No more is to be told.
    fn done(&mut self);
}

/// What the maker may use.
#[derive(Clone, Copy, PartialEq, Eq)]
pub struct SearchLimits {
    /// The most nodes of a run.
    pub nodes: usize,
    /// The most rounds.
    pub rounds: u32,
    /// The stack region, where the user has said which.
    pub region: Option<Region>,
    /// The rules by which certificates are sought, where the user has said which.
    pub edition: Option<Edition>,
}

/// What became of a cartridge.
#[derive(Drop)]
pub enum Made {
    /// A certificate that the checker accepts.
    Certificate(Vec<u8>),
    /// Why there is none, the likeliest cause first.
    Findings(Vec<Finding>),
}

/// An edit that may have to be taken back: what was before it, and the failure that it was to mend.
#[derive(Drop)]
pub(crate) struct Before {
    pub(crate) configuration: Configuration,
    pub(crate) place: TargetPlace,
    pub(crate) cause: Cause,
    /// The number of the plan.
    plan: u64,
    /// Whether others were made with it.
    is_one_of_many: bool,
    /// The nodes of the run that met the failure.
    nodes: usize,
}

/// A place and a reason, by whose number edits are counted.
#[derive(Clone, Copy, PartialEq, Eq, PartialOrd, Ord)]
pub(crate) struct Tried {
    pub(crate) place: TargetPlace,
    pub(crate) reason: u8,
}

/// Cells that aren't tracked yet, values at which widening doesn't stop yet, and addresses whose bytes aren't kept yet.
#[derive(Drop)]
pub(crate) struct News {
    pub(crate) cells: Vec<u16>,
    pub(crate) points: Vec<u8>,
    pub(crate) kept: Vec<u16>,
    /// Whether something is new of what bytes of RAM hold throughout.
    pub(crate) has_facts: bool,
}

/// Something is to be refined; the failure stands otherwise.
#[derive(Drop)]
pub(crate) struct Mending {
    pub(crate) place: TargetPlace,
    pub(crate) reason: u8,
    pub(crate) plan: Plan,
    pub(crate) finding: InstructionFinding,
}

/// What is to be done otherwise in the next round.
#[derive(Drop)]
pub(crate) enum Change {
    /// The stack region is this one.
    Region(Region),
    /// It reaches down to this one's first address.
    Deepen(Region),
    /// What a run wants of its configuration, and what it has met besides.
    Grant(Vec<Wish>, News),
    /// More cells and more values at which widening stops.
    Track(News),
    Mend(Mending),
    /// Some things are to be refined at once, and more cells and values are to be known.
    MendAll(Vec<Mending>, News),
    /// The calls of these targets are followed, so that there are fewer procedures.
    Follow(Vec<CodePoint>),
    /// The failure stands; runs go on elsewhere.
    GiveUp(TargetPlace),
    /// The last edit led into what is no code, so it was none that helps.
    TakeBack,
}

/// What a run teaches.
#[derive(Drop)]
pub(crate) enum Lesson {
    Change(Change),
    /// The run was too large.
    TooLarge(Crowd),
    /// There would be too many procedures, and other rules have room for more.
    GiveWay(Crowd),
    /// The search may not go on.
    OutOfTime,
    /// Nothing helps against these findings.
    End(Vec<Finding>),
    /// Nothing helps against what was first met at a place.
    EndAt(TargetPlace),
    /// A certificate, which no one has checked yet.
    Certificate(Vec<u8>),
    /// A certificate that the checker accepts, with a stack region that reaches further down than the run's.
    Deeper(Region, Vec<u8>),
}

/// The refinement of one cartridge.
#[derive(Drop)]
pub(crate) struct Refinement<'a> {
    pub(crate) alloc: Global,
    rom: &'a Rom<'a>,
    pub(crate) limits: SearchLimits,
    pub(crate) configuration: Configuration,
    pub(crate) cells: Cells,
    /// Loops that were keyed, which shrinking may take back.
    pub(crate) keyed_loops: Vec<Vec<TargetPlace>>,
    pub(crate) before: Option<Before>,
    /// The failures at places that were refined, as they were first met.
    pub(crate) first: BTreeMap<TargetPlace, InstructionFinding>,
    /// The calls of procedures that may run already, in the order in which they were met.
    pub(crate) circles: Vec<TargetPlace>,
    pub(crate) tried: BTreeMap<Tried, u32>,
    /// Where failures stand, in the order in which they were met.
    pub(crate) given_up: Vec<TargetPlace>,
    /// Where failures stood with fewer nodes.
    pub(crate) stood: BTreeSet<TargetPlace>,
    /// Whether the search has ended with a failure against which no more nodes help.
    pub(crate) is_hopeless: bool,
    /// The steps of all runs before the first failure stood.
    pub(crate) stands_since: u64,
    /// How many plans were taken back.
    taken_back: u32,
    /// How many runs, one after another, have met a return or a jump into what is no code, and the findings of the last one.
    pub(crate) wild_runs: u32,
    pub(crate) wild_findings: Vec<Finding>,
    /// The nodes of the first run with so many nodes allowed.
    pub(crate) first_nodes: Option<usize>,
    /// Whether the search has ended with a place that got too large again, by many times the nodes of the first run.
    pub(crate) is_multiplied: bool,
    /// Whether one failure alone is to be mended, since it was too much to mend several.
    pub(crate) is_single: bool,
    /// Where a finer configuration made the run too large.
    pub(crate) too_large: BTreeSet<TargetPlace>,
    /// Where an access goes by a pointer from RAM that nothing bounds.
    pub(crate) open: BTreeSet<TargetPlace>,
    /// Where a store goes, or SP is set, by such a pointer: with more nodes it would only walk further.
    pub(crate) any_address: BTreeSet<TargetPlace>,
    /// How many procedures began at each point of code in the last run.
    pub(crate) targets: BTreeMap<CodePoint, usize>,
    /// The nodes and the steps of the last run.
    pub(crate) nodes: usize,
    pub(crate) steps: u64,
    /// How many runs before it were the same, one after another.
    pub(crate) same_runs: u32,
    /// How many pairs of nodes the last run had at one address: a state that no node covers is sought among them value by
    /// value.
    pub(crate) pairs: u64,
    /// The steps of all runs.
    pub(crate) spent: u64,
    /// How many these may be, where that is less than the limits allow.
    pub(crate) budget: u64,
    /// How many rounds were begun.
    rounds: u32,
    /// Whether the limit of nodes was met.
    pub(crate) is_limited: bool,
    /// Whether the search gives way to other rules where there would be too many procedures, and whether it has.
    pub(crate) may_give_way: bool,
    pub(crate) has_given_way: bool,
}

/// The first configuration.
fn first_configuration(
    alloc: Global,
    limits: &SearchLimits,
    edition: Edition,
) -> Result<Configuration, AllocError> {
    let mut configuration = Configuration::new(alloc, edition)?;
    configuration.limit = limits.nodes;
    if let Some(region) = limits.region {
        configuration.region = region;
        configuration.is_stack_seen = true;
        configuration.is_stack_given = true;
    }
    Ok(configuration)
}

/// One finding alone.
pub(crate) fn alone(alloc: Global, finding: Finding) -> Result<Vec<Finding>, AllocError> {
    let mut findings = Vec::new(alloc);
    findings.push(finding)?;
    Ok(findings)
}

/// One finding is told at the end.
fn end_alone(alloc: Global, finding: Finding) -> Result<Made, AllocError> {
    Ok(Made::Findings(alone(alloc, finding)?))
}

impl<'a> Refinement<'a> {
    /// Nothing is known of the cartridge yet.
    pub(crate) fn new(
        alloc: Global,
        rom: &'a Rom<'a>,
        limits: SearchLimits,
        edition: Edition,
    ) -> Result<Refinement<'a>, AllocError> {
        Ok(Refinement {
            alloc,
            rom,
            limits,
            configuration: first_configuration(alloc, &limits, edition)?,
            cells: Cells::new(alloc),
            keyed_loops: Vec::new(alloc),
            before: None,
            first: BTreeMap::new(alloc),
            circles: Vec::new(alloc),
            tried: BTreeMap::new(alloc),
            given_up: Vec::new(alloc),
            stood: BTreeSet::new(alloc),
            is_hopeless: false,
            stands_since: 0,
            taken_back: 0,
            wild_runs: 0,
            wild_findings: Vec::new(alloc),
            first_nodes: None,
            is_multiplied: false,
            is_single: false,
            too_large: BTreeSet::new(alloc),
            open: BTreeSet::new(alloc),
            any_address: BTreeSet::new(alloc),
            targets: BTreeMap::new(alloc),
            nodes: 0,
            steps: 0,
            same_runs: 0,
            pairs: 0,
            spent: 0,
            budget: u64::MAX,
            rounds: 0,
            is_limited: false,
            may_give_way: false,
            has_given_way: false,
        })
    }

    /// One round; something where it is the last one.
    pub(crate) fn round<P: SearchProgress>(
        &mut self,
        progress: &mut P,
    ) -> Result<Option<Made>, AllocError> {
        let lesson = self.lesson(progress)?;
        self.apply(lesson)
    }

    fn lesson<P: SearchProgress>(&mut self, progress: &mut P) -> Result<Lesson, AllocError> {
        self.set_facts()?;
        let mut run = Run::new(self.alloc, self.rom, &self.configuration)?;
        self.lesson_of(&mut run, progress)
    }

    /// Runs, and learns from where it stops.
    fn lesson_of<P: SearchProgress>(
        &mut self,
        run: &mut Run<'_>,
        progress: &mut P,
    ) -> Result<Lesson, AllocError> {
        let most = self.budget.saturating_sub(self.spent);
        let Some(outcome) = outcome_of(run, most, progress)? else {
            return Ok(Lesson::OutOfTime);
        };
        progress.ran(run.nodes.len(), run.procedures.len());
        self.cells.learn(self.alloc, run)?;
        self.count_same(run);
        self.nodes = run.nodes.len();
        self.first_nodes.get_or_insert(self.nodes);
        self.steps = run.steps;
        self.pairs = pairs_of(run);
        self.spend(run.steps, outcome);
        self.targets = targets_of(self.alloc, run)?;
        if run.rules() == Rules::Extended {
            learn_touched(self.alloc, run, &mut self.configuration)?;
        }
        let first = self.learn(run, outcome)?;
        let lesson = self.past_idle(run, outcome, first)?;
        let lesson = self.unless_wild(run, lesson)?;
        self.unless_standing(run, lesson)
    }

    /// Counts a run's steps. One that finishes has no failure left, and what is learnt of RAM from it soon ends: so its steps don't count
    /// against a budget.
    fn spend(&mut self, steps: u64, outcome: RunEnd) {
        self.spent = self.spent.saturating_add(steps);
        if matches!(outcome, RunEnd::Finished) {
            self.budget = self.budget.saturating_add(steps);
        }
    }

    /// Counts a run if it is as the one before: what was learnt in between tells nothing apart.
    fn count_same(&mut self, run: &Run<'_>) {
        self.same_runs = if self.nodes == run.nodes.len() && self.steps == run.steps {
            self.same_runs.saturating_add(1)
        } else {
            0
        };
    }

    /// Something is refined; what was before is kept.
    fn refine(&mut self, mending: Mending) -> Result<(), AllocError> {
        self.keep_before(&mending, false)?;
        self.is_single = false;
        self.mend(mending)
    }

    /// Some things are refined; what was before all of them is kept.
    fn refine_all(&mut self, mendings: Vec<Mending>) -> Result<(), AllocError> {
        if let Some(first) = mendings.first() {
            self.keep_before(first, mendings.len() > 1)?;
        }
        self.is_single = false;
        for mending in mendings {
            self.mend(mending)?;
        }
        Ok(())
    }

    fn mend(&mut self, mending: Mending) -> Result<(), AllocError> {
        self.count_edit(mending.place, mending.reason)?;
        self.make_edit(&mending.plan)?;
        // Beside this one another plan may help that didn't before.
        self.configuration.taken_back = BTreeSet::new(self.alloc);
        let Mending { place, finding, .. } = mending;
        self.keep_first(place, finding)
    }

    fn count_edit(&mut self, place: TargetPlace, reason: u8) -> Result<(), AllocError> {
        let count = self.edits_at(place, reason);
        self.tried
            .insert(Tried { place, reason }, count.saturating_add(1))?;
        Ok(())
    }

    fn keep_before(&mut self, mending: &Mending, is_one_of_many: bool) -> Result<(), AllocError> {
        let configuration = self.configuration.clone()?;
        self.before = Some(Before {
            configuration,
            place: mending.place,
            cause: mending.finding.cause,
            plan: mending.plan.number(),
            is_one_of_many,
            nodes: self.nodes,
        });
        Ok(())
    }

    fn make_edit(&mut self, plan: &Plan) -> Result<(), AllocError> {
        let keys = plan.loose_keys()?;
        if !keys.is_empty() {
            self.keyed_loops.push(keys)?;
        }
        if plan.narrows_facts() {
            self.cells.facts = FactTable::new(self.alloc);
        }
        plan.apply(&mut self.configuration)
    }

    /// A failure is kept as it was first met, before states were told apart, but for the calls that lead there: the first ones that were
    /// met may be harmless, and later ones are those that remain.
    fn keep_first(
        &mut self,
        place: TargetPlace,
        finding: InstructionFinding,
    ) -> Result<(), AllocError> {
        if let Some(first) = self.first.get_mut(&place) {
            lead_as(first, finding);
            return Ok(());
        }
        if let Cause::Recursion { .. } = finding.cause {
            self.circles.push(place)?;
        }
        if finding.is_any_address {
            self.open.insert(place)?;
        }
        if walks(&finding) {
            self.any_address.insert(place)?;
        }
        self.first.insert(place, finding)?;
        Ok(())
    }

    /// The last edit is taken back. Another one is tried in its place, as long as fewer than so many were taken back; else the
    /// failure that it was to mend stands. Without an edit nothing is changed.
    fn take_back(&mut self, most: u32) -> Result<Option<TargetPlace>, AllocError> {
        match self.before.take() {
            Some(before) => {
                let place = before.place;
                let is_one_of_many = before.is_one_of_many;
                self.go_back(before)?;
                if is_one_of_many {
                    self.is_single = true;
                } else if self.taken_back < most {
                    self.taken_back = self.taken_back.saturating_add(1);
                } else {
                    self.stand(place)?;
                }
                Ok(Some(place))
            }
            None => Ok(None),
        }
    }

    /// How many plans are taken back with another one tried in their place: fewer where a pointer from RAM is told apart through
    /// all memory, and none where that, or a place that stood, takes very many nodes.
    fn most_taken_back(&self) -> u32 {
        let (is_open, has_stood) = match &self.before {
            Some(before) => {
                let place = before.place;
                (self.open.contains(&place), self.stood.contains(&place))
            }
            None => (false, false),
        };
        let nodes = self.limits.nodes;
        if nodes <= FEW_NODES && !is_open {
            TAKEN_BACK
        } else if nodes > FEW_NODES && is_open || nodes > MORE_NODES && has_stood {
            0
        } else {
            TAKEN_BACK_OF_MANY
        }
    }

    fn go_back(&mut self, before: Before) -> Result<(), AllocError> {
        let Before {
            mut configuration,
            plan,
            is_one_of_many,
            ..
        } = before;
        self.keep_learnt(&mut configuration)?;
        if !is_one_of_many {
            configuration.taken_back.insert(plan)?;
        }
        self.configuration = configuration;
        Ok(())
    }

    /// Whether the run that met the failure to be mended last had nearly as many nodes as are allowed.
    fn was_nearly_full(&self) -> bool {
        match &self.before {
            Some(before) => {
                let spare = self.limits.nodes.saturating_sub(before.nodes);
                spare.saturating_mul(SPARE_PART) <= self.limits.nodes
            }
            None => false,
        }
    }

    /// A run was too large: the last edit was too much, or there was none. Where the run before it had no room to grow either, more nodes
    /// are wanted and no other plan.
    fn shrink_back(&mut self, crowd: Crowd) -> Result<Option<Made>, AllocError> {
        let is_full = self.was_nearly_full();
        let most = self.most_taken_back();
        let place = self.take_back(most)?;
        let is_any_address = match place {
            Some(place) => self.any_address.contains(&place),
            None => false,
        };
        if !is_any_address {
            self.is_limited = true;
        }
        if is_full && let Some(place) = place {
            self.stand(place)?;
            self.too_large.insert(place)?;
        }
        match place {
            Some(place) if self.ends_too_large(place) || is_full => {
                Ok(Some(self.end_standing(Finding::TooLarge(crowd))?))
            }
            Some(place) if self.given_up.len() < OBSTACLES => {
                if !self.is_single && !is_any_address {
                    self.too_large.insert(place)?;
                }
                Ok(None)
            }
            Some(place) => Ok(Some(self.end_at(place, Finding::TooLarge(crowd))?)),
            None => Ok(Some(self.end_standing(Finding::TooLarge(crowd))?)),
        }
    }

    /// The failure at a place is told, as it was first met, and another finding.
    fn end_at(&mut self, place: TargetPlace, other: Finding) -> Result<Made, AllocError> {
        match self.first.remove(&place) {
            Some(standing) => {
                let mut findings = Vec::new(self.alloc);
                tell(Finding::Instruction(standing), &mut findings)?;
                findings.push(other)?;
                Ok(Made::Findings(findings))
            }
            None => end_alone(self.alloc, other),
        }
    }

    /// The failure at a place is told alone, as it was first met.
    fn end_as_first(&mut self, place: TargetPlace) -> Result<Made, AllocError> {
        match self.first.remove(&place) {
            Some(standing) => {
                let mut findings = Vec::new(self.alloc);
                tell(Finding::Instruction(standing), &mut findings)?;
                Ok(Made::Findings(findings))
            }
            None => end_alone(self.alloc, Finding::Internal),
        }
    }

    /// A finding as it was first met, where its pointer is kept in RAM, or where a jump leads into what is no code: later ones are
    /// told apart value by value.
    fn as_first_met(&mut self, finding: Finding) -> Finding {
        match finding {
            Finding::Instruction(last) => match self.first.remove(&last.place) {
                Some(mut first) if is_told_as_first(&first, &last) => {
                    first.is_too_large = last.is_too_large;
                    lead_as(&mut first, last);
                    Finding::Instruction(first)
                }
                _ => Finding::Instruction(last),
            },
            other => other,
        }
    }

    /// The findings that are reported at the end.
    fn end(&mut self, findings: Vec<Finding>) -> Result<Made, AllocError> {
        let mut told = Vec::new(self.alloc);
        self.tell_all(findings, &mut told)?;
        Ok(Made::Findings(told))
    }

    fn tell_all(
        &mut self,
        findings: Vec<Finding>,
        told: &mut Vec<Finding>,
    ) -> Result<(), AllocError> {
        for finding in findings {
            let first = self.as_first_met(finding);
            tell(first, told)?;
        }
        Ok(())
    }

    /// An older configuration gets what has been learnt since, but for what tells states apart.
    fn keep_learnt(&self, older: &mut Configuration) -> Result<(), AllocError> {
        older.region = self.configuration.region;
        older.is_stack_given = self.configuration.is_stack_given;
        older.is_stack_seen = self.configuration.is_stack_seen;
        older.tracked = self.configuration.tracked.clone()?;
        older.kept = self.configuration.kept.clone()?;
        older.known_targets = self.configuration.known_targets.clone()?;
        older.touched = self.configuration.touched.clone()?;
        add_points(&self.configuration.points, &mut older.points)?;
        for place in &self.given_up {
            older.given_up.insert(*place)?;
        }
        Ok(())
    }

    /// Does what a lesson says; something where there is no more to be done.
    fn apply(&mut self, lesson: Lesson) -> Result<Option<Made>, AllocError> {
        match lesson {
            Lesson::Change(change) => {
                self.change(change)?;
                Ok(None)
            }
            Lesson::TooLarge(crowd) => self.shrink_back(crowd),
            Lesson::GiveWay(crowd) => self.give_way(crowd),
            Lesson::OutOfTime => Ok(Some(self.out_of_rounds(self.rounds, Spent::Time)?)),
            Lesson::End(findings) => Ok(Some(self.end(findings)?)),
            Lesson::EndAt(place) => Ok(Some(self.end_as_first(place)?)),
            Lesson::Certificate(bytes) => Ok(Some(Made::Certificate(bytes))),
            Lesson::Deeper(region, bytes) => {
                self.deepen(region)?;
                Ok(Some(Made::Certificate(bytes)))
            }
        }
    }

    pub(crate) fn change(&mut self, change: Change) -> Result<(), AllocError> {
        match change {
            Change::Region(region) => self.set_region(region),
            Change::Deepen(region) => self.deepen(region),
            Change::Grant(wishes, news) => {
                self.grant_all(&wishes)?;
                self.track(&news)
            }
            Change::Track(news) => self.track(&news),
            Change::Mend(mending) => self.refine(mending),
            Change::MendAll(mendings, news) => {
                self.track(&news)?;
                self.refine_all(mendings)
            }
            Change::Follow(targets) => self.follow(&targets),
            Change::GiveUp(place) => self.stand(place),
            Change::TakeBack => {
                self.take_back(TAKEN_BACK_OF_MANY)?;
                Ok(())
            }
        }
    }

    fn grant_all(&mut self, wishes: &[Wish]) -> Result<(), AllocError> {
        for wish in wishes {
            self.grant(*wish)?;
        }
        Ok(())
    }

    /// What a run wants becomes part of the configuration.
    fn grant(&mut self, wish: Wish) -> Result<(), AllocError> {
        match wish {
            Wish::Inline(target) => self.configuration.inline(target),
            Wish::Base(target) => {
                self.configuration.based.insert(target)?;
                Ok(())
            }
            Wish::Arguments { target, more } => {
                let bytes = self.configuration.arguments_at(target).saturating_add(more);
                self.configuration.arguments.insert(target, bytes)?;
                Ok(())
            }
            Wish::Banks(target) => {
                self.configuration.banked.insert(target)?;
                Ok(())
            }
            Wish::Top(sp) => self.set_region(region_below(sp)),
        }
    }

    /// Calls of these targets are followed in their callers.
    fn follow(&mut self, targets: &[CodePoint]) -> Result<(), AllocError> {
        for target in targets {
            self.configuration.inline(*target)?;
        }
        Ok(())
    }

    fn set_region(&mut self, region: Region) -> Result<(), AllocError> {
        self.configuration.is_stack_seen = true;
        self.deepen(region)
    }

    fn deepen(&mut self, region: Region) -> Result<(), AllocError> {
        self.cells
            .set_region(self.alloc, &mut self.configuration, region)
    }

    fn track(&mut self, news: &News) -> Result<(), AllocError> {
        for point in &news.points {
            self.configuration.points.insert(*point)?;
        }
        for address in &news.kept {
            self.configuration.kept.insert(*address)?;
        }
        self.cells.track(&mut self.configuration, &news.cells)
    }

    /// How many steps of nodes all rounds together may take: fewer where there are to be few nodes, and more where many.
    fn most_steps(&self) -> u64 {
        let nodes = self.limits.nodes as u64;
        let many = nodes.saturating_mul(STEPS_A_NODE_OF_MANY);
        let by_limits = ALL_STEPS.max(many).min(nodes.saturating_mul(STEPS_A_NODE));
        by_limits.min(self.budget)
    }

    /// More nodes are allowed from now on. What made a run too large may help then: no plan is taken back any more, and no failure
    /// stands that one was made for.
    pub(crate) fn allow(&mut self, nodes: usize) -> Result<(), AllocError> {
        self.limits.nodes = nodes;
        self.configuration.limit = nodes;
        self.configuration.taken_back = BTreeSet::new(self.alloc);
        self.spent = 0;
        self.reopen()?;
        self.too_large = BTreeSet::new(self.alloc);
        self.tried = BTreeMap::new(self.alloc);
        self.before = None;
        self.taken_back = 0;
        self.wild_runs = 0;
        self.wild_findings = Vec::new(self.alloc);
        self.first_nodes = None;
        self.is_multiplied = false;
        self.is_single = false;
        self.is_limited = false;
        self.may_give_way = false;
        Ok(())
    }

    /// A failure that was met and isn't told otherwise: the one to be mended last, or else the first by its place.
    fn unmended(&mut self) -> Option<TargetPlace> {
        let last = self.before.take().map(|before| before.place);
        match last {
            Some(place) if self.first.contains_key(&place) => Some(place),
            _ => self.first.keys().next().copied(),
        }
    }

    /// There were more rounds than allowed, or they took too long: a failure that was to be mended is told.
    fn out_of_rounds(&mut self, rounds: u32, spent: Spent) -> Result<Made, AllocError> {
        let finding = Finding::OutOfRounds { rounds, spent };
        match self.unmended() {
            Some(place) => self.end_at(place, finding),
            None => end_alone(self.alloc, finding),
        }
    }

    /// Rounds, until there is a certificate or nothing more helps.
    pub(crate) fn make<P: SearchProgress>(&mut self, progress: &mut P) -> Result<Made, AllocError> {
        for round in 0..self.limits.rounds {
            self.rounds = round.saturating_add(1);
            progress.round(self.rounds);
            if let Some(made) = self.round(progress)? {
                return Ok(made);
            }
            if self.spent > self.most_steps() {
                return self.out_of_rounds(self.rounds, Spent::Steps);
            }
            if !progress.goes_on() {
                return self.out_of_rounds(self.rounds, Spent::Time);
            }
        }
        self.out_of_rounds(self.limits.rounds, Spent::Rounds)
    }

    pub(crate) fn alloc(&self) -> Global {
        self.alloc
    }

    pub(crate) fn rom(&self) -> &'a Rom<'a> {
        self.rom
    }
}

fn add_points(more: &BTreeSet<u8>, points: &mut BTreeSet<u8>) -> Result<(), AllocError> {
    for point in more {
        points.insert(*point)?;
    }
    Ok(())
}

/// Whether a store goes, or SP is set, by a pointer from RAM that nothing bounds.
fn walks(finding: &InstructionFinding) -> bool {
    let is_followed = matches!(
        finding.cause,
        Cause::Store { .. } | Cause::Stack(StackMisuse::SetByHl)
    );
    is_followed && finding.is_any_address
}

/// A finding is reached by the calls of another one.
fn lead_as(finding: &mut InstructionFinding, other: InstructionFinding) {
    let InstructionFinding { path, chain, .. } = other;
    finding.path.start = path.start;
    finding.chain = chain;
}

/// Whether a finding is told as it was first met.
fn is_told_as_first(first: &InstructionFinding, last: &InstructionFinding) -> bool {
    let is_jump = first.cause == Cause::JumpHl && is_no_code(last.cause);
    is_jump || first.load.is_some() || !first.kept_in.is_empty()
}

/// The region of one word below an address.
pub(crate) fn region_below(sp: u16) -> Region {
    Region {
        first: sp.wrapping_sub(2),
        last: sp.wrapping_sub(1),
    }
}

/// Whether a region lies in work RAM or in high RAM.
pub(crate) fn is_in_ram(region: Region) -> bool {
    let is_work_ram = 0xC000 <= region.first && region.last <= 0xDFFF;
    let is_high_ram = 0xFF80 <= region.first && region.last <= 0xFFFE;
    region.first <= region.last && (is_work_ram || is_high_ram)
}
