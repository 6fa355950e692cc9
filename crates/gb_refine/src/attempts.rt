//! The attempts at a cartridge: by the rules of version 3, and where these lead to no certificate, by those of version 4 if it
//! switches banks, and then by those of versions 1 and 2, by which states are told apart otherwise. Where a game has more procedures than
//! a certificate of version 3 holds, those of version 4 come before calls are followed. So nothing is lost that these
//! rules certify. All are tried with few nodes first, since an edit that leads into very many is mostly one that doesn't help; and
//! with more while that helps against a failure.

use crate::rounds::{Made, Refinement, SearchLimits, SearchProgress, alone};
use crate::shrink::shrink;
use crate::written::is_accepted;
use gb_findings::{Finding, Spent};
use gb_prune::gb_ops::machine::Kind;
use gb_prune::limits::{FEW_NODES, NODES};
use gb_prune::{Edition, Rom};
use std::alloc::{AllocError, Global};

/// The most nodes of the attempts that come next, before as many as are allowed.
pub(crate) const MORE_NODES: usize = 100_000;

/// The fewest and the most steps of an attempt by the rules of version 4 that nobody asked for.
const FEWEST_STEPS: u64 = 100_000;

const MOST_STEPS: u64 = 200_000;

/// The attempts so far.
#[derive(Drop)]
struct Attempts<'a> {
    alloc: Global,
    rom: &'a Rom<'a>,
    limits: SearchLimits,
    /// What was learnt by the rules of version 3, by those of version 4, and by those of versions 1 and 2.
    by_third: Option<Refinement<'a>>,
    by_fourth: Option<Refinement<'a>>,
    by_early: Option<Refinement<'a>>,
    /// Whether the rules of version 3 have given way to those of version 4, which have room for more procedures.
    has_given_way: bool,
    /// The findings by the rules that are tried first, or by those of version 4 where these were given way to.
    findings: Vec<Finding>,
}

impl<'a> Attempts<'a> {
    /// Whether there is a way to go by some rules that the limits allow.
    fn are_wanted(&self, edition: Edition) -> bool {
        match self.limits.edition {
            Some(wanted) => wanted == edition,
            None => edition != Edition::Fourth || self.switches_banks(),
        }
    }

    /// Whether the cartridge has a controller.
    fn switches_banks(&self) -> bool {
        !matches!(self.rom.kind(), Kind::Rom)
    }

    /// Whether the rules of versions 1 and 2 are tried with so many nodes: more than few only where the limit stopped those of version 3
    /// too. Else a failure stands that has nothing to do with it, and they know no more of it.
    fn may_be_early(&self, nodes: usize, before: Limited) -> bool {
        let is_alone = !self.are_wanted(Edition::Third);
        self.are_wanted(Edition::Early) && (nodes <= FEW_NODES || before.by_third || is_alone)
    }

    /// Whether some rules are tried with so many nodes, where they might lead further than before.
    fn may_lead_further(&self, edition: Edition, nodes: usize, before: Limited) -> bool {
        match edition {
            Edition::Third => before.by_third && self.are_wanted(Edition::Third),
            Edition::Fourth => before.by_fourth && self.are_wanted(Edition::Fourth),
            Edition::Early => before.by_early && self.may_be_early(nodes, before),
        }
    }

    /// A certificate by some rules with so many nodes; whether more nodes might lead further where there is none.
    fn attempt<P: SearchProgress>(
        &mut self,
        edition: Edition,
        nodes: usize,
        progress: &mut P,
    ) -> Result<Attempted, AllocError> {
        let mut refinement = self.refinement(edition, nodes)?;
        match refinement.make(progress)? {
            Made::Certificate(bytes) => {
                let bytes = shrink(&refinement, bytes, progress)?;
                self.judged(edition, bytes)
            }
            Made::Findings(findings) => {
                // What stood with fewer nodes was told as it was first met; of an attempt that time ended only that is told.
                let is_new = progress.goes_on() && !refinement.stands_again();
                if is_new || self.findings.is_empty() {
                    self.keep(edition, findings);
                }
                let is_over = refinement.is_hopeless
                    || refinement.is_wild()
                    || refinement.is_multiplied && self.limits.nodes <= NODES;
                let is_limited = refinement.is_limited && !is_over;
                self.has_given_way = self.has_given_way || refinement.has_given_way;
                self.keep_learnt(edition, refinement);
                Ok(Attempted::Nothing { is_limited })
            }
        }
    }

    /// A certificate, if the checker accepts it.
    fn if_accepted(&self, bytes: Vec<u8>) -> Option<Vec<u8>> {
        if is_accepted(self.alloc, self.rom, bytes.as_slice()) {
            Some(bytes)
        } else {
            None
        }
    }

    /// What comes of an attempt that made a certificate. By the rules of version 4 it counts only if the checker accepts it, so that
    /// other rules are tried else.
    fn judged(&mut self, edition: Edition, bytes: Vec<u8>) -> Result<Attempted, AllocError> {
        if edition != Edition::Fourth {
            return Ok(Attempted::Certificate(bytes));
        }
        match self.if_accepted(bytes) {
            Some(bytes) => Ok(Attempted::Certificate(bytes)),
            None => {
                let findings = alone(self.alloc, Finding::Internal)?;
                self.keep(edition, findings);
                Ok(Attempted::Nothing { is_limited: false })
            }
        }
    }

    /// What was learnt by some rules is kept.
    fn keep_learnt(&mut self, edition: Edition, refinement: Refinement<'a>) {
        match edition {
            Edition::Third => self.by_third = Some(refinement),
            Edition::Fourth => self.by_fourth = Some(refinement),
            Edition::Early => self.by_early = Some(refinement),
        }
    }

    /// What was learnt by some rules.
    fn take_learnt(&mut self, edition: Edition) -> Option<Refinement<'a>> {
        match edition {
            Edition::Third => self.by_third.take(),
            Edition::Fourth => self.by_fourth.take(),
            Edition::Early => self.by_early.take(),
        }
    }

    /// What was learnt with fewer nodes goes on with so many; else nothing is known yet.
    fn refinement(&mut self, edition: Edition, nodes: usize) -> Result<Refinement<'a>, AllocError> {
        if let Some(mut refinement) = self.take_learnt(edition) {
            refinement.allow(nodes)?;
            return Ok(refinement);
        }
        let limits = SearchLimits {
            nodes,
            ..self.limits
        };
        let mut refinement = Refinement::new(self.alloc, self.rom, limits, edition)?;
        if edition == Edition::Fourth {
            refinement.budget = self.budget();
        }
        refinement.may_give_way = edition == Edition::Third && self.are_wanted(Edition::Fourth);
        Ok(refinement)
    }

    /// The steps of an attempt by the rules of version 4. Where nobody asked for these, it takes no longer than the one by the rules of
    /// version 3, so that a game with a mistake is refused soon; where that one has given way, as long as it needs.
    fn budget(&self) -> u64 {
        match &self.by_third {
            Some(third) if self.limits.edition.is_none() && !self.has_given_way => {
                third.spent.max(FEWEST_STEPS).min(MOST_STEPS)
            }
            _ => u64::MAX,
        }
    }

    /// Time ended the search: that is told last, since what was found may only be where it stood.
    fn tell_end(&mut self) -> Result<(), AllocError> {
        let is_told = match self.findings.as_slice().last() {
            Some(told) => is_end(told),
            None => false,
        };
        if !is_told {
            self.findings.push(Finding::OutOfRounds {
                rounds: 0,
                spent: Spent::Time,
            })?;
        }
        Ok(())
    }

    /// Findings are kept by the first rules alone; where these have given way to others, by those.
    fn keep(&mut self, edition: Edition, findings: Vec<Finding>) {
        let first = if self.has_given_way {
            Edition::Fourth
        } else {
            Edition::Third
        };
        if edition == first || !self.are_wanted(Edition::Third) {
            self.findings = findings;
        }
    }

    /// Whether facts are sought before the rules of an attempt are tried: before those of version 4, or where banks are switched
    /// behind them. What facts bound takes few nodes, or facts don't help.
    fn has_facts_before(&self, edition: Edition, nodes: usize) -> bool {
        let is_wanted = match self.limits.edition {
            Some(wanted) => wanted == Edition::Fourth,
            None => true,
        };
        let is_now = match edition {
            Edition::Third => false,
            Edition::Fourth => !self.switches_banks(),
            Edition::Early => self.switches_banks(),
        };
        is_wanted && is_now && nodes <= FEW_NODES
    }

    /// A certificate with facts, if they are sought before the rules of an attempt are tried.
    fn made_with_facts<P: SearchProgress>(
        &mut self,
        edition: Edition,
        nodes: usize,
        progress: &mut P,
    ) -> Result<Option<Vec<u8>>, AllocError> {
        if !self.has_facts_before(edition, nodes) || !progress.goes_on() {
            return Ok(None);
        }
        let limits = SearchLimits {
            nodes,
            ..self.limits
        };
        let mut refinement = Refinement::new(self.alloc, self.rom, limits, Edition::Fourth)?;
        refinement.budget = self.budget();
        refinement.cells.seeks_facts = true;
        match refinement.make(progress)? {
            Made::Certificate(bytes) => {
                let bytes = shrink(&refinement, bytes, progress)?;
                Ok(self.if_accepted(bytes))
            }
            Made::Findings(_) => Ok(None),
        }
    }

    /// An attempt by the rules of version 3 that goes on where it gave way to those of version 4, and these lead to no certificate:
    /// calls are followed in their callers then.
    fn attempt_further<P: SearchProgress>(
        &mut self,
        nodes: usize,
        limited: &mut Limited,
        progress: &mut P,
    ) -> Result<Option<Vec<u8>>, AllocError> {
        let has_given_way = match &mut self.by_third {
            Some(third) => std::mem::take(&mut third.has_given_way),
            None => false,
        };
        if !has_given_way || !progress.goes_on() {
            return Ok(None);
        }
        match self.attempt(Edition::Third, nodes, progress)? {
            Attempted::Certificate(bytes) => Ok(Some(bytes)),
            Attempted::Nothing { is_limited } => {
                limited.set(Edition::Third, is_limited);
                Ok(None)
            }
        }
    }

    /// Certificates by all rules with so many nodes, where they might lead further than before.
    fn attempt_all<P: SearchProgress>(
        &mut self,
        nodes: usize,
        before: Limited,
        progress: &mut P,
    ) -> Result<AllAttempted, AllocError> {
        let mut limited = Limited::none();
        for edition in [Edition::Third, Edition::Fourth, Edition::Early] {
            if edition == Edition::Early
                && let Some(bytes) = self.attempt_further(nodes, &mut limited, progress)?
            {
                return Ok(AllAttempted::Certificate(bytes));
            }
            if let Some(bytes) = self.made_with_facts(edition, nodes, progress)? {
                return Ok(AllAttempted::Certificate(bytes));
            }
            if self.may_lead_further(edition, nodes, before) && progress.goes_on() {
                match self.attempt(edition, nodes, progress)? {
                    Attempted::Certificate(bytes) => return Ok(AllAttempted::Certificate(bytes)),
                    Attempted::Nothing { is_limited } => limited.set(edition, is_limited),
                }
            }
        }
        Ok(AllAttempted::Nothing(limited))
    }

    /// All attempts.
    fn make<P: SearchProgress>(mut self, progress: &mut P) -> Result<Made, AllocError> {
        let mut limited = Limited::all();
        let mut before = 0;
        for most in [FEW_NODES, MORE_NODES, self.limits.nodes] {
            let nodes = most.min(self.limits.nodes);
            if nodes > before {
                match self.attempt_all(nodes, limited, progress)? {
                    AllAttempted::Certificate(bytes) => return Ok(Made::Certificate(bytes)),
                    AllAttempted::Nothing(after) => limited = after,
                }
                before = nodes;
            }
        }
        if !progress.goes_on() {
            self.tell_end()?;
        }
        let Attempts { findings, .. } = self;
        Ok(Made::Findings(findings))
    }
}

/// Whether a finding says that the search was given up.
fn is_end(finding: &Finding) -> bool {
    matches!(finding, Finding::OutOfRounds { .. })
}

/// What came of an attempt.
#[derive(Drop)]
enum Attempted {
    Certificate(Vec<u8>),
    Nothing { is_limited: bool },
}

/// What came of attempts by all rules.
#[derive(Drop)]
enum AllAttempted {
    Certificate(Vec<u8>),
    Nothing(Limited),
}

/// By which rules more nodes might lead further.
#[derive(Clone, Copy)]
struct Limited {
    by_third: bool,
    by_fourth: bool,
    by_early: bool,
}

impl Limited {
    fn all() -> Limited {
        Limited {
            by_third: true,
            by_fourth: true,
            by_early: true,
        }
    }

    fn none() -> Limited {
        Limited {
            by_third: false,
            by_fourth: false,
            by_early: false,
        }
    }

    fn set(&mut self, edition: Edition, is_limited: bool) {
        match edition {
            Edition::Third => self.by_third = is_limited,
            Edition::Fourth => self.by_fourth = is_limited,
            Edition::Early => self.by_early = is_limited,
        }
    }
}

/// A certificate by the rules that the limits name, or else by those of version 3, then 4, then 1 and 2.
/// Where there is none, the findings by the first rules.
pub(crate) fn made_certificate<P: SearchProgress>(
    alloc: Global,
    rom: &Rom<'_>,
    limits: SearchLimits,
    progress: &mut P,
) -> Result<Made, AllocError> {
    let attempts = Attempts {
        alloc,
        rom,
        limits,
        by_third: None,
        by_fourth: None,
        by_early: None,
        has_given_way: false,
        findings: Vec::new(alloc),
    };
    attempts.make(progress)
}
