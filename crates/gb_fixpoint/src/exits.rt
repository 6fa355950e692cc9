//! Exits: what procedures return with, and who goes on behind them when that grows.

use crate::types::{Run, RunProcedure};
use gb_joining::covering::is_covered;
use gb_joining::gb_verify::Abs;
use gb_joining::limits::{EXIT_GROWTHS, FILL_GROWTHS, PAIR_GROWTHS};
use gb_joining::seen::{seen, seen_as_told, told_exit};
use gb_joining::steps::Growth;
use gb_joining::stop::RunStop;

impl RunProcedure {
    /// What it returns with, if it has returned yet.
    fn exact_exit(&self) -> Option<&Abs> {
        match (&self.exact, &self.exit) {
            (Some(exact), _) => Some(exact),
            (None, Some(exit)) => Some(exit),
            (None, None) => None,
        }
    }
}

impl<'a> Run<'a> {
    /// A procedure's exit becomes one above it and a state. Where its callers see that it grew, they go on again.
    pub(crate) fn exit(&mut self, procedure: usize, state: &Abs) -> Result<(), RunStop> {
        if self.is_held_by_exit(procedure, state) {
            Ok(())
        } else if self.has_facts() {
            self.grow_exit_with_facts(procedure, state)
        } else {
            self.grow_exit(procedure, state)
        }
    }

    /// Whether a procedure's exit holds a state already.
    fn is_held_by_exit(&self, procedure: usize, state: &Abs) -> bool {
        match self.procedures.get(procedure) {
            Some(left) => match left.exact_exit() {
                Some(exit) => is_covered(&self.basis(), state, exit),
                None => false,
            },
            None => true,
        }
    }

    /// A procedure's exit grows to hold a state. Out of line: room for states is cleared only then.
    #[inline(never)]
    fn grow_exit(&mut self, procedure: usize, state: &Abs) -> Result<(), RunStop> {
        let Some(mut exit) = self.grown_exit(procedure, state) else {
            return Ok(());
        };
        if self.has_facts() {
            self.keep_exit_facts(procedure, state, &mut exit)?;
        }
        let (told, exact) = if self.is_fourth() {
            (told_exit(self.kept.as_slice(), &exit), Some(exit))
        } else {
            (exit, None)
        };
        let is_seen = self.is_growth_seen(procedure, &told);
        if let Some(left) = self.procedures.get_mut(procedure) {
            left.exit = Some(told);
            left.exact = exact;
            left.growths = left.growths.saturating_add(1);
        }
        if is_seen {
            self.enqueue_sites(procedure)?;
        }
        Ok(())
    }

    /// A procedure's exit with one more state.
    fn grown_exit(&self, procedure: usize, state: &Abs) -> Option<Abs> {
        let left = self.procedures.get(procedure)?;
        let Some(exit) = left.exact_exit() else {
            return Some(state.copied());
        };
        let growth = if left.growths > PAIR_GROWTHS {
            Growth::WidenedWithoutPairs
        } else if left.growths > EXIT_GROWTHS {
            Growth::Widened
        } else {
            Growth::Joined
        };
        Some(self.widening.grown(&self.basis(), growth, exit, state))
    }

    /// A procedure's exit has grown to hold a state: of cells and fills what both have.
    fn keep_exit_facts(
        &mut self,
        procedure: usize,
        state: &Abs,
        grown: &mut Abs,
    ) -> Result<(), RunStop> {
        let (old, is_early) = match self.procedures.get(procedure) {
            Some(left) => match left.exact_exit() {
                Some(exit) => (exit.copied(), left.growths < FILL_GROWTHS),
                None => return Ok(()),
            },
            None => return Ok(()),
        };
        self.join_facts(&old, state, grown, is_early)
    }

    /// Whether a procedure's callers see that its exit grows to this one.
    fn is_growth_seen(&self, procedure: usize, grown: &Abs) -> bool {
        let Some(left) = self.procedures.get(procedure) else {
            return false;
        };
        let Some(exit) = &left.exit else {
            return true;
        };
        let ranges = left.ranges.as_slice();
        let basis = self.basis();
        if self.is_fourth() {
            !is_covered(
                &basis,
                &seen_as_told(ranges, grown),
                &seen_as_told(ranges, exit),
            )
        } else {
            !is_covered(&basis, &seen(ranges, grown), &seen(ranges, exit))
        }
    }
}

impl<'a> Run<'a> {
    /// A procedure's exit grows to hold a state, in a run with facts.
    #[inline(never)]
    fn grow_exit_with_facts(&mut self, procedure: usize, state: &Abs) -> Result<(), RunStop> {
        let old = match self.procedures.get(procedure) {
            Some(left) => match left.exact_exit() {
                Some(exit) => exit.copied(),
                None => return self.grow_exit(procedure, state),
            },
            None => return Ok(()),
        };
        let state = self.given_back(state, &old)?;
        if is_covered(&self.basis(), &state, &old) {
            return Ok(());
        }
        self.grow_exit(procedure, &state)
    }
}
