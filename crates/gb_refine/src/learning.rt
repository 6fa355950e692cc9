//! What a run teaches, and what is to be done otherwise in the next round.

use crate::failures::{is_from_many, told};
use crate::rounds::{
    Change, Lesson, Made, Mending, News, Refinement, Tried, WORD, alone, is_in_ram, region_below,
};
use crate::written::{is_accepted, written};
use gb_findings::{Crowd, Finding, InstructionFinding};
use gb_plans::{
    Plan, array_behind, inline_plan, last_plan, plan_compared, plan_for, targets_to_follow,
};
use gb_prune::gb_ops::machine::Region;
use gb_prune::limits::{
    DEAR_STEPS, EDITS, EDITS_AGAIN, EDITS_OF_KEPT, KEPT, OBSTACLES, STEPS_BACK,
};
use gb_prune::{
    Cause, CodePoint, Failure, PADDING, Rules, Run, RunEnd, TargetPlace, Wish, find_needs,
};
use std::alloc::{AllocError, Global};
use std::collections::BTreeSet;

/// After how many runs that are the same, one after another, no more cells get the room of others.
const SAME_RUNS: u32 = 2;

/// One finding that nothing helps against, and nothing else.
fn end_by(alloc: Global, finding: Finding) -> Result<Lesson, AllocError> {
    Ok(Lesson::End(alone(alloc, finding)?))
}

impl<'a> Refinement<'a> {
    /// The stack region by the first LD SP,n16: one word below it, until more is needed.
    fn learn_stack(&self, sp: u16) -> Result<Lesson, AllocError> {
        let region = region_below(sp);
        if is_in_ram(region) {
            Ok(Lesson::Change(Change::Region(region)))
        } else {
            end_by(self.alloc, Finding::NoStack { sp })
        }
    }

    /// What a run wants to know besides what is known.
    fn news(&self, run: &Run<'_>) -> Result<News, AllocError> {
        let mut cells = self.cells.missing(self.alloc, run)?;
        let points = self.new_points(&run.points)?;
        let kept = self.new_kept(&run.shadows)?;
        for address in &kept {
            if !self.configuration.tracked.contains(address) && !cells.contains(address) {
                cells.push(*address)?;
            }
        }
        Ok(News {
            cells,
            points,
            kept,
            has_facts: self.cells.are_facts_new,
        })
    }

    /// The addresses that shadow a register of the controller, and whose bytes aren't kept yet, as many as there is room for.
    fn new_kept(&self, shadows: &BTreeSet<u16>) -> Result<Vec<u16>, AllocError> {
        let mut kept = Vec::new(self.alloc);
        let mut room = KEPT.saturating_sub(self.configuration.kept.len());
        for address in shadows {
            if room > 0 && !self.configuration.kept.contains(address) {
                kept.push(*address)?;
                room = room.saturating_sub(1);
            }
        }
        Ok(kept)
    }

    /// Where a run ends with something else than a certificate and has met addresses that shadow the controller, their bytes are kept
    /// first: what else would have to be told apart then isn't.
    fn keeping(&self, run: &Run<'_>, outcome: RunEnd) -> Result<Option<Lesson>, AllocError> {
        if !matches!(
            outcome,
            RunEnd::Failed(_) | RunEnd::TooLarge | RunEnd::Crowded
        ) {
            return Ok(None);
        }
        let news = self.news(run)?;
        Ok(if news.kept.is_empty() {
            None
        } else {
            Some(Lesson::Change(Change::Track(news)))
        })
    }

    /// The values at which widening had better stop, and that aren't known yet.
    fn new_points(&self, wanted: &BTreeSet<u8>) -> Result<Vec<u8>, AllocError> {
        let mut points = Vec::new(self.alloc);
        for point in wanted {
            if !self.configuration.points.contains(point) {
                points.push(*point)?;
            }
        }
        Ok(points)
    }

    /// How often a place was refined for a reason.
    pub(crate) fn edits_at(&self, place: TargetPlace, reason: u8) -> u32 {
        match self.tried.get(&Tried { place, reason }) {
            Some(count) => *count,
            None => 0,
        }
    }

    /// Whether a place may be refined once more for a reason: more often in a routine that is called from many places, each of which may
    /// need an edit of its own. Where rounds are dear, this counts in all procedures: code that is followed in its callers isn't begun anew
    /// in each of them. Where a failure stood with fewer nodes, it may be more seldom.
    fn may_edit(&self, run: &Run<'_>, place: TargetPlace, reason: u8, is_kept: bool) -> bool {
        let least = if is_kept { EDITS_OF_KEPT } else { EDITS };
        let most = least.saturating_add(calls_of(run, place.target));
        let has_stood = self.stood.iter().any(|stood| stood.point == place.point);
        let around = self.edits_around(place.point, reason);
        let is_dear = self.steps >= DEAR_STEPS;
        self.edits_at(place, reason) < most
            && (!is_dear || around < most)
            && (!has_stood || around < EDITS_AGAIN)
    }

    /// How often a point of code was refined for a reason, in all procedures.
    fn edits_around(&self, point: CodePoint, reason: u8) -> u32 {
        let mut count: u32 = 0;
        for (tried, edits) in self.tried.iter() {
            if tried.place.point == point && tried.reason == reason {
                count = count.saturating_add(*edits);
            }
        }
        count
    }

    /// The failures of a run at places that were given up, in the order in which they were met, and one more.
    pub(crate) fn standing(
        &self,
        run: &Run<'_>,
        last: Option<&Failure>,
    ) -> Result<Vec<Finding>, AllocError> {
        let mut findings = Vec::new(self.alloc);
        self.add_standing(run, last, &mut findings)?;
        findings.truncate(OBSTACLES);
        Ok(findings)
    }

    fn add_standing(
        &self,
        run: &Run<'_>,
        last: Option<&Failure>,
        findings: &mut Vec<Finding>,
    ) -> Result<(), AllocError> {
        for place in &self.given_up {
            let is_too_large = self.too_large.contains(place);
            for failure in &run.failures {
                if run.place_of(failure.node) == Some(*place) {
                    self.add_failure(run, failure, is_too_large, findings)?;
                }
            }
        }
        match last {
            Some(failure) => self.add_failure(run, failure, false, findings),
            None => Ok(()),
        }
    }

    /// A failure, with what there is to tell of it. Where a jump led into what is no code, it is told as that jump.
    pub(crate) fn add_failure(
        &self,
        run: &Run<'_>,
        failure: &Failure,
        is_too_large: bool,
        findings: &mut Vec<Finding>,
    ) -> Result<(), AllocError> {
        if let Some(mut standing) = told(self.alloc, run, failure, &self.cells.left_out)? {
            standing.is_too_large = is_too_large;
            if let Some(jump) = self.jump_behind(run, failure) {
                standing.place = jump;
            }
            findings.push(Finding::Instruction(standing))?;
        }
        Ok(())
    }

    /// Nothing more helps against a failure.
    fn give_up(
        &self,
        run: &Run<'_>,
        failure: &Failure,
        place: TargetPlace,
    ) -> Result<Lesson, AllocError> {
        let is_last = self.given_up.len() + 1 >= OBSTACLES;
        if is_last || self.configuration.given_up.contains(&place) {
            Ok(Lesson::End(self.standing(run, Some(failure))?))
        } else {
            Ok(Lesson::Change(Change::GiveUp(place)))
        }
    }

    /// Whether a place's pointer is kept in RAM, as its failure was first met.
    fn is_kept_in_ram(&self, place: TargetPlace) -> bool {
        match self.first.get(&place) {
            Some(standing) => !standing.kept_in.is_empty(),
            None => false,
        }
    }

    /// Whether a failure means that there is no code, and was reached by a jump whose targets were told apart last.
    fn leads_nowhere(&self, run: &Run<'_>, failure: &Failure) -> bool {
        let Some(before) = &self.before else {
            return false;
        };
        before.cause == Cause::JumpHl
            && is_no_code(failure.cause)
            && comes_from(run, failure.node, before.place)
    }

    /// A call of a circle of procedures that were followed in their callers, where these push without an end: the first that was
    /// met and leads back, as that of a loop from within does, or else the first.
    fn recursion_behind(&self, failure: &Failure) -> Option<TargetPlace> {
        if failure.cause != Cause::PushesTooMany {
            return None;
        }
        let mut first = None;
        for place in &self.circles {
            match self.followed_at(*place) {
                Some(target) if target <= place.point.address => return Some(*place),
                Some(_) if first.is_none() => first = Some(*place),
                _ => {}
            }
        }
        first
    }

    /// What is called at a place, where it runs already and is followed in its callers.
    fn followed_at(&self, place: TargetPlace) -> Option<u16> {
        let standing = self.first.get(&place)?;
        let Cause::Recursion { target } = standing.cause else {
            return None;
        };
        let point = CodePoint::of(self.rom(), &standing.state.core().ctl, target);
        if self.configuration.inlined.contains(&point) {
            Some(target)
        } else {
            None
        }
    }

    /// A failure: what to refine, if anything may help.
    fn learn_failure(&self, run: &Run<'_>, failure: &Failure) -> Result<Lesson, AllocError> {
        let Some(place) = run.place_of(failure.node) else {
            return Ok(Lesson::End(self.standing(run, None)?));
        };
        if let Some(lesson) = self.learn_array(run, failure)? {
            return Ok(lesson);
        }
        if self.leads_nowhere(run, failure) {
            return Ok(Lesson::Change(Change::TakeBack));
        }
        if let Some(place) = self.recursion_behind(failure) {
            return Ok(Lesson::EndAt(place));
        }
        match told(self.alloc, run, failure, &self.cells.left_out)? {
            Some(finding) => self.learn_mending(run, failure, place, finding),
            None => self.give_up(run, failure, place),
        }
    }

    /// A failure in what is no code: the jump that led there by an array, if its bytes can be told apart.
    fn learn_array(&self, run: &Run<'_>, failure: &Failure) -> Result<Option<Lesson>, AllocError> {
        let Some((jump, plan)) = array_behind(self.alloc, run, failure)? else {
            return Ok(None);
        };
        let Some(place) = run.place_of(jump.node) else {
            return Ok(None);
        };
        let reason = jump.cause.reason().number();
        if self.edits_at(place, reason) >= EDITS {
            return Ok(None);
        }
        match told(self.alloc, run, &jump, &self.cells.left_out)? {
            Some(finding) => Ok(Some(Lesson::Change(Change::Mend(Mending {
                place,
                reason,
                plan,
                finding,
            })))),
            None => Ok(None),
        }
    }

    /// A failure that there is something to tell of.
    fn learn_mending(
        &self,
        run: &Run<'_>,
        failure: &Failure,
        place: TargetPlace,
        finding: InstructionFinding,
    ) -> Result<Lesson, AllocError> {
        let plan = if comes_from_many(&finding) {
            plan_compared(self.alloc, run, finding.address)?
        } else {
            let is_kept = !finding.kept_in.is_empty() || self.is_kept_in_ram(place);
            self.plan_or_inline(run, failure, place, is_kept)?
        };
        match plan {
            Some(plan) => Ok(Lesson::Change(Change::Mend(Mending {
                place,
                reason: failure.cause.reason().number(),
                plan,
                finding,
            }))),
            None => self.give_up(run, failure, place),
        }
    }

    /// What may help against a failure, unless its place was refined too often.
    fn plan_at(
        &self,
        run: &Run<'_>,
        failure: &Failure,
        place: TargetPlace,
        is_kept: bool,
    ) -> Result<Option<Plan>, AllocError> {
        if self.may_edit(run, place, failure.cause.reason().number(), is_kept) {
            plan_for(self.alloc, run, failure, is_kept)
        } else {
            Ok(None)
        }
    }

    /// What may help against a failure; else its procedure is followed in its callers, or at last all are parted by the bank.
    fn plan_or_inline(
        &self,
        run: &Run<'_>,
        failure: &Failure,
        place: TargetPlace,
        is_kept: bool,
    ) -> Result<Option<Plan>, AllocError> {
        if let Some(plan) = self.plan_at(run, failure, place, is_kept)? {
            return Ok(Some(plan));
        }
        match inline_plan(self.alloc, run, failure)? {
            Some(plan) => Ok(Some(plan)),
            None => last_plan(self.alloc, run, failure),
        }
    }

    /// The run has met no failure but those that stand.
    fn learn_end(&self, run: &mut Run<'_>) -> Result<Lesson, AllocError> {
        if !run.failures.is_empty() {
            return Ok(Lesson::End(self.standing(run, None)?));
        }
        match find_needs(self.alloc, run)? {
            Some(procedure) => {
                let target = run.target(procedure);
                end_by(self.alloc, Finding::Recursion { target })
            }
            None => self.learn_needs(run),
        }
    }

    /// Whether the stack region is large enough for main, or can be made so.
    fn learn_needs(&self, run: &Run<'_>) -> Result<Lesson, AllocError> {
        let bytes = match run.procedures.first() {
            Some(main) => main.need.max(WORD),
            None => WORD,
        };
        let region = self.configuration.region;
        match region_of(bytes, region.last) {
            Some(needed) if region.first <= needed.first => { self.learn_certificate(run) }
            Some(needed) if self.limits.region.is_none() && is_in_ram(needed) => {
                self.learn_deeper(run, needed)
            }
            _ => self.end_too_deep(bytes),
        }
    }

    /// The stack region has to reach further down: mostly nothing else depends on that, so that the checker accepts what was
    /// found with it. Else there is another round.
    fn learn_deeper(&self, run: &Run<'_>, region: Region) -> Result<Lesson, AllocError> {
        match written(self.alloc, run, region)? {
            Some(bytes) if is_accepted(self.alloc, self.rom(), &bytes) => {
                Ok(Lesson::Deeper(region, bytes))
            }
            _ => Ok(Lesson::Change(Change::Region(region))),
        }
    }

    /// The stack needs more than there is room for.
    fn end_too_deep(&self, bytes: usize) -> Result<Lesson, AllocError> {
        let region = self.configuration.region;
        end_by(self.alloc, Finding::StackTooDeep { bytes, region })
    }

    /// Where a run's stack reached below the region, by the rules of version 3, the region reaches further down first.
    fn deepening(&self, run: &Run<'_>) -> Result<Option<Lesson>, AllocError> {
        let region = self.configuration.region;
        if run.rules() == Rules::Simple
            || region.first <= run.lowest
            || self.limits.region.is_some()
        {
            return Ok(None);
        }
        let deeper = Region {
            first: run.lowest,
            last: region.last,
        };
        if is_in_ram(deeper) {
            return Ok(Some(Lesson::Change(Change::Deepen(deeper))));
        }
        let bytes = usize::from(region.last.saturating_sub(run.lowest)).saturating_add(1);
        Ok(Some(self.end_too_deep(bytes)?))
    }

    /// The certificate of a run. Where a limit stands against it, it is told as one that the checker refuses.
    fn learn_certificate(&self, run: &Run<'_>) -> Result<Lesson, AllocError> {
        match written(self.alloc, run, self.configuration.region)? {
            Some(bytes) => Ok(Lesson::Certificate(bytes)),
            None => end_by(self.alloc, Finding::Internal),
        }
    }

    /// What a run teaches.
    pub(crate) fn learn(&self, run: &mut Run<'_>, outcome: RunEnd) -> Result<Lesson, AllocError> {
        if let Some(lesson) = self.deepening(run)? {
            return Ok(lesson);
        }
        if let Some(lesson) = self.keeping(run, outcome)? {
            return Ok(lesson);
        }
        match outcome {
            RunEnd::Wanted(wish) => self.learn_wishes(run, wish),
            RunEnd::TooLarge => Ok(Lesson::TooLarge(Crowd::of(self.alloc, run)?)),
            RunEnd::Crowded => self.learn_crowded(run),
            RunEnd::StackSet { sp } => self.learn_stack(sp),
            RunEnd::Failed(failure) => self.learn_failed(run, &failure),
            RunEnd::Finished => self.learn_finished(run),
        }
    }

    /// What a run wants, of which one is given at least.
    fn learn_wishes(&self, run: &Run<'_>, first: Wish) -> Result<Lesson, AllocError> {
        let mut wishes = Vec::new(self.alloc);
        for wish in &run.wishes {
            wishes.push(*wish)?;
        }
        if wishes.is_empty() {
            wishes.push(first)?;
        }
        Ok(Lesson::Change(Change::Grant(wishes, self.news(run)?)))
    }

    /// There would be too many procedures: other rules come first that have room for more. Else some are followed in their callers,
    /// where that is cheap. Where the last edit was for a pointer that is kept in RAM, they are parted by its values, of which
    /// following would only make more.
    fn learn_crowded(&self, run: &Run<'_>) -> Result<Lesson, AllocError> {
        if self.may_give_way {
            return Ok(Lesson::GiveWay(Crowd::of(self.alloc, run)?));
        }
        let is_kept = match &self.before {
            Some(before) => self.is_kept_in_ram(before.place),
            None => false,
        };
        let targets = targets_to_follow(self.alloc, run)?;
        if is_kept || targets.is_empty() {
            Ok(Lesson::TooLarge(Crowd::of(self.alloc, run)?))
        } else {
            Ok(Lesson::Change(Change::Follow(targets)))
        }
    }

    /// Other rules come first: the search ends here for now.
    pub(crate) fn give_way(&mut self, crowd: Crowd) -> Result<Option<Made>, AllocError> {
        self.has_given_way = true;
        let findings = alone(self.alloc, Finding::TooLarge(crowd))?;
        Ok(Some(Made::Findings(findings)))
    }

    /// A failure is looked into only where no more can be known of cells and widening, but in a long run.
    fn learn_failed(&self, run: &Run<'_>, failure: &Failure) -> Result<Lesson, AllocError> {
        let mut news = self.news(run)?;
        if self.same_runs < SAME_RUNS {
            self.cells.add_waiting(&mut news.cells)?;
        }
        if !news.has_facts && (run.steps >= DEAR_STEPS || news.is_empty()) {
            self.learn_at_once(run, failure, news)
        } else {
            Ok(Lesson::Change(Change::Track(news)))
        }
    }

    /// Where rounds are dear, what may help against a failure isn't put off until more is known, and against those that the run
    /// went past neither.
    fn learn_at_once(
        &self,
        run: &Run<'_>,
        failure: &Failure,
        news: News,
    ) -> Result<Lesson, AllocError> {
        match self.learn_first(run, failure)? {
            Lesson::Change(Change::Mend(mending)) => {
                let mut mendings = Vec::new(self.alloc);
                mendings.push(mending)?;
                self.add_passed(run, &mut mendings)?;
                Ok(Lesson::Change(Change::MendAll(mendings, news)))
            }
            lesson if news.is_empty() => Ok(lesson),
            _ => Ok(Lesson::Change(Change::Track(news))),
        }
    }

    /// A failure. A routine that seems to run already is often no more than what comes of a bank that isn't known, so where the
    /// run has met such a failure too, that is mended first.
    fn learn_first(&self, run: &Run<'_>, failure: &Failure) -> Result<Lesson, AllocError> {
        if let Cause::Recursion { .. } = failure.cause {
            for other in &run.passed {
                if other.cause == Cause::Bank
                    && let Lesson::Change(Change::Mend(mending)) = self.learn_failure(run, other)?
                {
                    return Ok(Lesson::Change(Change::Mend(mending)));
                }
            }
        }
        self.learn_failure(run, failure)
    }

    /// What may help against the failures that a run went past, one in the procedures of each target and each bank. Where the bank
    /// isn't known, what follows is often no code of the program's: such a failure is mended alone.
    fn add_passed(&self, run: &Run<'_>, mendings: &mut Vec<Mending>) -> Result<(), AllocError> {
        if self.is_single
            || mendings
                .iter()
                .any(|mending| is_of_bank(mending.finding.cause))
        {
            return Ok(());
        }
        for failure in &run.passed {
            let Some(place) = run.place_of(failure.node) else {
                continue;
            };
            let is_met = mendings.iter().any(|mending| is_near(mending.place, place));
            if !is_met
                && !is_of_bank(failure.cause)
                && let Lesson::Change(Change::Mend(mending)) = self.learn_failure(run, failure)?
            {
                mendings.push(mending)?;
            }
        }
        Ok(())
    }

    /// Whether what a finished run leads to stays, though more cells were read than are tracked: the checker accepts its certificate,
    /// or another stack region comes first.
    fn is_enough(&self, lesson: &Lesson) -> bool {
        match lesson {
            Lesson::Certificate(bytes) => is_accepted(self.alloc, self.rom(), bytes),
            Lesson::Deeper(_, _) => true,
            _ => false,
        }
    }

    /// A finished run. That more cells were read than are tracked doesn't matter where the checker accepts its certificate.
    fn learn_finished(&self, run: &mut Run<'_>) -> Result<Lesson, AllocError> {
        let news = self.news(run)?;
        if news.has_facts {
            return Ok(Lesson::Change(Change::Track(news)));
        }
        let lesson = self.learn_end(run)?;
        if news.cells.is_empty() || self.is_enough(&lesson) {
            Ok(lesson)
        } else {
            Ok(Lesson::Change(Change::Track(news)))
        }
    }
}

/// The most calls of a routine for which its places are refined more often.
const MANY_CALLS: usize = 24;

/// From how many places a target is called, up to as many as count.
fn calls_of(run: &Run<'_>, target: CodePoint) -> u32 {
    let mut calls: usize = 0;
    for procedure in &run.procedures {
        if procedure.key.point() == target {
            calls = calls.saturating_add(procedure.sites.len());
        }
    }
    calls.min(MANY_CALLS) as u32
}

/// Whether a pointer's byte is loaded from more bytes of RAM than are ever known, as from a queue: no value of it would be refused
/// otherwise than all.
fn comes_from_many(finding: &InstructionFinding) -> bool {
    match finding.load {
        Some(load) => is_from_many(load.from),
        None => false,
    }
}

/// Whether a failure means that there is no code.
pub(crate) fn is_no_code(cause: Cause) -> bool {
    match cause {
        Cause::Area | Cause::Unreadable { .. } | Cause::UndefinedOpcode { .. } | Cause::Stop => {
            true
        }
        Cause::Recursion { target } => target == PADDING,
        _ => false,
    }
}

/// Whether what is shown isn't known.
fn is_of_bank(cause: Cause) -> bool {
    matches!(cause, Cause::Bank | Cause::CartridgeRam { .. })
}

/// Whether places are in procedures of one target, and in one bank.
fn is_near(place: TargetPlace, other: TargetPlace) -> bool {
    place.target == other.target && place.point.bank == other.point.bank
}

/// The stack region of so many bytes, at least one, up to an address.
fn region_of(bytes: usize, last: u16) -> Option<Region> {
    let Ok(more) = u16::try_from(bytes.saturating_sub(1)) else {
        return None;
    };
    let first = last.checked_sub(more)?;
    Some(Region { first, last })
}

/// Whether a node was first reached from a place within a few steps.
fn comes_from(run: &Run<'_>, number: usize, place: TargetPlace) -> bool {
    let mut at = Some(number);
    for _ in 0..STEPS_BACK {
        let Some(number) = at else { return false };
        if run.place_of(number) == Some(place) {
            return true;
        }
        at = match run.nodes.get(number) {
            Some(node) => node.via,
            None => None,
        };
    }
    false
}
