//! Failures that stand, since no plan is left for them. A run goes on past them, and the search ends where they stay.

use crate::failures::tell;
use crate::learning::is_no_code;
use crate::rounds::{Change, Lesson, Made, Refinement};
use gb_findings::Finding;
use gb_prune::limits::{FEW_NODES, MULTIPLE, STEPS_STANDING};
use gb_prune::{Edition, Run, RunEnd, TargetPlace};
use std::alloc::{AllocError, Global};
use std::collections::{BTreeSet, HashSet};
use std::mem;

impl<'a> Refinement<'a> {
    /// A failure at a place stands.
    pub(crate) fn stand(&mut self, place: TargetPlace) -> Result<(), AllocError> {
        if self.given_up.is_empty() {
            self.stands_since = self.spent;
        }
        if self.configuration.given_up.insert(place)? {
            self.given_up.push(place)?;
        }
        Ok(())
    }

    /// Whether a failure stands that stood with fewer nodes too.
    pub(crate) fn stands_again(&self) -> bool {
        for place in &self.given_up {
            if self.stood.contains(place) {
                return true;
            }
        }
        false
    }

    /// Whether so many steps were taken since a failure stands that the search ends.
    fn stands_long(&self) -> bool {
        let taken = self.spent.saturating_sub(self.stands_since);
        !self.given_up.is_empty() && taken > STEPS_STANDING
    }

    /// Whether a run has met a failure that stands, and against which no more nodes help: no edit for it has made a run too large. One
    /// in what is no code mostly follows from another one.
    fn meets_hopeless(&self, run: &Run<'_>) -> bool {
        for failure in &run.failures {
            if let Some(place) = run.place_of(failure.node)
                && self.limits.nodes > FEW_NODES
                && !is_no_code(failure.cause)
                && !self.too_large.contains(&place)
            {
                return true;
            }
        }
        false
    }

    /// A lesson, unless the search ends with the failures that stand.
    pub(crate) fn unless_standing(
        &mut self,
        run: &Run<'_>,
        lesson: Lesson,
    ) -> Result<Lesson, AllocError> {
        self.is_hopeless = self.meets_hopeless(run);
        let Lesson::Change(change) = lesson else {
            return Ok(lesson);
        };
        if let Change::GiveUp(place) = &change {
            self.stand(*place)?;
        }
        let is_met = !run.failures.is_empty() && !is_of_stack(&change);
        if is_met && (self.is_hopeless || self.stands_long()) {
            Ok(Lesson::End(self.standing(run, None)?))
        } else {
            Ok(Lesson::Change(change))
        }
    }

    /// Whether an attempt ends with a place whose last edit made a run too large: it stands, and did so with fewer nodes, or these are
    /// the rules that are tried for a certificate alone. With more nodes a pointer from RAM that nothing bounds would only walk
    /// further.
    pub(crate) fn ends_too_large(&mut self, place: TargetPlace) -> bool {
        let is_alone = self.configuration.edition == Edition::Early
            && self.limits.edition.is_none();
        let is_last = is_alone || self.stood.contains(&place);
        let is_standing = self.configuration.given_up.contains(&place);
        let ends = self.limits.nodes > FEW_NODES && is_standing && is_last;
        self.is_hopeless = ends && self.open.contains(&place);
        self.is_multiplied = ends && self.has_multiplied();
        ends
    }

    /// Whether many times the nodes are allowed that the first run took.
    fn has_multiplied(&self) -> bool {
        match self.first_nodes {
            Some(nodes) => nodes.saturating_mul(MULTIPLE) < self.limits.nodes,
            None => false,
        }
    }

    /// What a run comes to besides a failure that stands from now on: None where another run has to show it.
    pub(crate) fn end_besides(
        &self,
        run: &mut Run<'_>,
        lesson: &Lesson,
    ) -> Result<Option<RunEnd>, AllocError> {
        match lesson {
            Lesson::Change(Change::GiveUp(place)) => run.stand(*place),
            _ => Ok(None),
        }
    }

    /// The failures that stand are told, as they were first met, and another finding.
    pub(crate) fn end_standing(&mut self, other: Finding) -> Result<Made, AllocError> {
        let mut findings = Vec::new(self.alloc);
        for place in &self.given_up {
            if let Some(standing) = self.first.remove(place) {
                tell(Finding::Instruction(standing), &mut findings)?;
            }
        }
        findings.push(other)?;
        Ok(Made::Findings(findings))
    }

    /// No failure stands any more, but where a pointer comes from RAM that can be any address. Those that stood are known again.
    pub(crate) fn reopen(&mut self) -> Result<(), AllocError> {
        let before = mem::replace(&mut self.given_up, Vec::new(self.alloc));
        self.configuration.given_up = HashSet::new(self.alloc);
        self.stood = BTreeSet::new(self.alloc);
        self.is_hopeless = false;
        for place in before {
            self.stood.insert(place)?;
            if self.any_address.contains(&place) {
                self.stand(place)?;
            }
        }
        Ok(())
    }
}

/// Whether a change is about the stack: what a run wants of it may help against what stands.
pub(crate) fn is_of_stack(change: &Change) -> bool {
    matches!(
        change,
        Change::Region(_) | Change::Deepen(_) | Change::Grant(..)
    )
}
