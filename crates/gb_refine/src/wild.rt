//! Returns that take pushed bytes, and jumps by a pointer, that lead into what is no code. Mostly such a one is the mistake itself: what
//! a run goes through behind it is no one's code, and edits made for that tell nothing of the program apart. So the search ends with
//! it soon.

use crate::learning::is_no_code;
use crate::rounds::{Change, Lesson, Refinement};
use crate::standing::is_of_stack;
use gb_findings::{Finding, is_by_wild_return};
use gb_prune::limits::{OBSTACLES, WILD_RUNS};
use gb_prune::{Cause, Failure, Run, TargetPlace};
use std::alloc::AllocError;
use std::mem;

/// How many nodes there are at most from a jump to what is no code: the jump, the byte where it leads, and what that one calls.
const STEPS_OF_JUMP: u32 = 3;

impl<'a> Refinement<'a> {
    /// The jump by a pointer that led into what is no code, if its targets weren't known at first: since then values of its index
    /// were told apart, and one of them is too large.
    pub(crate) fn jump_behind(&self, run: &Run<'_>, failure: &Failure) -> Option<TargetPlace> {
        if !is_no_code(failure.cause) {
            return None;
        }
        let mut at = Some(failure.node);
        for _ in 0..STEPS_OF_JUMP {
            let number = at?;
            let place = run.place_of(number)?;
            if let Some(first) = self.first.get(&place)
                && first.cause == Cause::JumpHl
            {
                return Some(place);
            }
            at = run.nodes.get(number)?.via;
        }
        None
    }

    /// The first of a run's failures that comes from such a return or jump.
    fn wild_among(&self, run: &Run<'_>, failures: &[Failure]) -> Option<Failure> {
        for failure in failures {
            if is_by_wild_return(run, failure) || self.jump_behind(run, failure).is_some() {
                return Some(*failure);
            }
        }
        None
    }

    /// The first failure of a run that comes from such a return or jump: one that stands, or else one that the run went past.
    fn wild_failure(&self, run: &Run<'_>) -> Option<Failure> {
        match self.wild_among(run, run.failures.as_slice()) {
            Some(failure) => Some(failure),
            None => self.wild_among(run, run.passed.as_slice()),
        }
    }

    /// A lesson, unless so many runs, one after another, have met such a return or jump that the search ends with it. What it leads
    /// into may also stop a run by what it wants of the stack.
    pub(crate) fn unless_wild(
        &mut self,
        run: &Run<'_>,
        lesson: Lesson,
    ) -> Result<Lesson, AllocError> {
        if !is_about_failures(&lesson) {
            return Ok(lesson);
        }
        if let Some(failure) = self.wild_failure(run) {
            self.wild_findings = self.wild_first(run, &failure)?;
        } else if !is_about_stack(&lesson) {
            self.wild_findings = Vec::new(self.alloc);
        }
        if self.wild_findings.is_empty() {
            self.wild_runs = 0;
            return Ok(lesson);
        }
        self.wild_runs = self.wild_runs.saturating_add(1);
        if self.is_wild() {
            let findings = mem::replace(&mut self.wild_findings, Vec::new(self.alloc));
            Ok(Lesson::End(findings))
        } else {
            Ok(lesson)
        }
    }

    /// Whether the search ends with such a return or jump: more nodes don't help against it.
    pub(crate) fn is_wild(&self) -> bool {
        self.wild_runs >= WILD_RUNS
    }

    /// The findings that are told, that of such a return or jump first.
    fn wild_first(&self, run: &Run<'_>, failure: &Failure) -> Result<Vec<Finding>, AllocError> {
        let mut findings = Vec::new(self.alloc);
        self.add_failure(run, failure, false, &mut findings)?;
        for standing in self.standing(run, None)? {
            if !has_place_of(&findings, &standing) {
                findings.push(standing)?;
            }
        }
        findings.truncate(OBSTACLES);
        Ok(findings)
    }
}

/// Whether findings have one at the place of another.
fn has_place_of(findings: &[Finding], other: &Finding) -> bool {
    let Finding::Instruction(other) = other else {
        return false;
    };
    for finding in findings {
        if let Finding::Instruction(finding) = finding
            && finding.place == other.place
        {
            return true;
        }
    }
    false
}

/// Whether a lesson is about the stack alone.
fn is_about_stack(lesson: &Lesson) -> bool {
    match lesson {
        Lesson::Change(change) => is_of_stack(change),
        _ => false,
    }
}

/// Whether a lesson is what a failure or a wish teaches, and not only that more is to be known of RAM.
fn is_about_failures(lesson: &Lesson) -> bool {
    match lesson {
        Lesson::Change(change) => !matches!(change, Change::Track(_)),
        _ => false,
    }
}
