//! Idle edits: those that tell nothing apart. A round under them would end where the one before did, so the same run is asked
//! again, and so it is where a failure stands that it went past.

use crate::rounds::{Change, Lesson, Refinement};
use gb_plans::EditedPlaces;
use gb_prune::limits::IDLE_EDITS;
use gb_prune::{Configuration, Run, RunEnd};
use std::alloc::{AllocError, Global};

/// Makes the edits of a lesson in a configuration, where it is about nothing else: where they tell states apart.
fn edits_of(
    alloc: Global,
    lesson: &Lesson,
    finer: &mut Configuration,
) -> Result<Option<EditedPlaces>, AllocError> {
    let Lesson::Change(Change::MendAll(mendings, news)) = lesson else {
        return Ok(None);
    };
    let mut edited = EditedPlaces::new(alloc);
    for mending in mendings {
        if !mending.plan.add_edited(&mut edited)? {
            return Ok(None);
        }
        mending.plan.apply(finer)?;
    }
    if news.is_empty() {
        Ok(Some(edited))
    } else {
        Ok(None)
    }
}

impl<'a> Refinement<'a> {
    /// A lesson, and after it what the run teaches further where another run would end where this one did: while the edits tell
    /// nothing apart, and past failures that stand.
    pub(crate) fn past_idle(
        &mut self,
        run: &mut Run<'_>,
        outcome: RunEnd,
        first: Lesson,
    ) -> Result<Lesson, AllocError> {
        let mut lesson = first;
        let mut end = outcome;
        for _ in 0..IDLE_EDITS {
            if let Some(next) = self.end_besides(run, &lesson)? {
                end = next;
            } else if !self.is_idle(run, &lesson)? {
                break;
            }
            lesson = self.learn_further(run, end, lesson)?;
        }
        Ok(lesson)
    }

    /// Whether a lesson is about edits alone that tell nothing apart in a run, which goes by them from now on.
    fn is_idle(&self, run: &mut Run<'_>, lesson: &Lesson) -> Result<bool, AllocError> {
        let mut finer = self.configuration.clone()?;
        match edits_of(self.alloc, lesson, &mut finer)? {
            Some(edited) => Ok(!run.is_refined_by(finer, &edited)?),
            None => Ok(false),
        }
    }

    /// Does what a lesson says, and asks the same run again.
    fn learn_further(
        &mut self,
        run: &mut Run<'_>,
        outcome: RunEnd,
        lesson: Lesson,
    ) -> Result<Lesson, AllocError> {
        match lesson {
            Lesson::Change(change) => {
                self.change(change)?;
                run.configuration = self.configuration.clone()?;
                self.learn(run, outcome)
            }
            other => Ok(other),
        }
    }
}
