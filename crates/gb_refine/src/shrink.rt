//! Shrinking: what a certificate doesn't need is taken back while the checker accepts what is left.

use crate::measures::outcome_of;
use crate::pruning::made_smaller;
use crate::rounds::{Refinement, SearchProgress};
use crate::written::{is_accepted, written};
use gb_plans::{parted_by, without};
use gb_prune::gb_ops::op::Register;
use gb_prune::limits::{SHRINK_ATTEMPTS, SHRINK_STEPS, SPARE_NODES, STEPS_A_PAIR};
use gb_prune::{CodePoint, Configuration, REGISTERS, Rom, Run, RunEnd, TargetPlace, find_needs};
use std::alloc::{AllocError, Global};

/// What is taken back by halves.
#[derive(Clone, Copy, PartialEq, Eq)]
enum Spare {
    /// The procedures at a target needn't be parted by the bank.
    Parting(CodePoint),
    /// A cell needn't be tracked.
    Cell(u16),
    /// The byte at an address needn't be kept.
    Kept(u16),
}

/// The certificate of one run, if it is clean, the checker accepts it, and time doesn't end before.
fn attempt<P: SearchProgress>(
    alloc: Global,
    rom: &Rom<'_>,
    configuration: &Configuration,
    progress: &mut P,
) -> Result<Option<Vec<u8>>, AllocError> {
    let mut run = Run::new(alloc, rom, configuration)?;
    accepted(alloc, rom, &mut run, progress)
}

fn accepted<P: SearchProgress>(
    alloc: Global,
    rom: &Rom<'_>,
    run: &mut Run<'_>,
    progress: &mut P,
) -> Result<Option<Vec<u8>>, AllocError> {
    if !is_clean(alloc, run, progress)? {
        return Ok(None);
    }
    match written(alloc, run, run.configuration.region)? {
        Some(bytes) if is_accepted(alloc, rom, &bytes) => Ok(Some(bytes)),
        _ => Ok(None),
    }
}

/// Whether a run ends with no failure, and its procedures' needs are found.
fn is_clean<P: SearchProgress>(
    alloc: Global,
    run: &mut Run<'_>,
    progress: &mut P,
) -> Result<bool, AllocError> {
    let outcome = outcome_of(run, u64::MAX, progress)?;
    let is_finished = matches!(outcome, Some(RunEnd::Finished));
    if !is_finished || !run.failures.is_empty() || run.has_broken_facts() {
        return Ok(false);
    }
    Ok(find_needs(alloc, run)?.is_none())
}

/// The configuration without these.
fn without_some(
    configuration: &Configuration,
    spare: &[Spare],
) -> Result<Configuration, AllocError> {
    let mut coarser = configuration.clone()?;
    for one in spare {
        match one {
            Spare::Parting(target) => {
                coarser.flat.insert(*target)?;
            }
            Spare::Cell(cell) => {
                coarser.tracked.remove(cell);
            }
            Spare::Kept(address) => {
                coarser.kept.remove(address);
            }
        }
    }
    Ok(coarser)
}

/// A certificate that gets smaller.
#[derive(Drop)]
struct Shrinking<'a> {
    alloc: Global,
    rom: &'a Rom<'a>,
    configuration: Configuration,
    best: Vec<u8>,
    attempts: u64,
}

impl Shrinking<'_> {
    /// Takes back all that can be, one kind after another.
    fn shrink<P: SearchProgress>(
        &mut self,
        refinement: &Refinement<'_>,
        progress: &mut P,
    ) -> Result<(), AllocError> {
        self.flatten(refinement, progress)?;
        self.let_go(refinement, progress)?;
        self.untrack(refinement, progress)?;
        self.loops(&refinement.keyed_loops, progress)?;
        self.registers(progress)
    }

    /// Procedures needn't be parted by the bank.
    fn flatten<P: SearchProgress>(
        &mut self,
        refinement: &Refinement<'_>,
        progress: &mut P,
    ) -> Result<(), AllocError> {
        let targets = crowded(refinement)?;
        self.by_halves(&targets, progress)
    }

    /// Bytes needn't be kept.
    fn let_go<P: SearchProgress>(
        &mut self,
        refinement: &Refinement<'_>,
        progress: &mut P,
    ) -> Result<(), AllocError> {
        let mut kept = Vec::new(self.alloc);
        for address in refinement.configuration.kept.iter() {
            kept.push(Spare::Kept(*address))?;
        }
        self.by_halves(&kept, progress)
    }

    /// Cells needn't be tracked.
    fn untrack<P: SearchProgress>(
        &mut self,
        refinement: &Refinement<'_>,
        progress: &mut P,
    ) -> Result<(), AllocError> {
        let cells = loose_cells(refinement)?;
        self.by_halves(&cells, progress)
    }

    /// Takes all of these back, else each half of them, and so on.
    fn by_halves<P: SearchProgress>(
        &mut self,
        spare: &[Spare],
        progress: &mut P,
    ) -> Result<(), AllocError> {
        let mut left = Vec::new(self.alloc);
        left.push(spare)?;
        self.by_parts(&mut left, progress)
    }

    fn by_parts<P: SearchProgress>(
        &mut self,
        left: &mut Vec<&[Spare]>,
        progress: &mut P,
    ) -> Result<(), AllocError> {
        for _ in 0..2 * SHRINK_ATTEMPTS {
            let Some(part) = left.pop() else { break };
            if part.is_empty() || self.attempts == 0 {
                continue;
            }
            if !self.try_without(part, progress)? && part.len() > 1 {
                push_halves(part, left)?;
            }
        }
        Ok(())
    }

    fn try_without<P: SearchProgress>(
        &mut self,
        spare: &[Spare],
        progress: &mut P,
    ) -> Result<bool, AllocError> {
        let coarser = without_some(&self.configuration, spare)?;
        self.try_coarser(coarser, progress)
    }

    /// Loops that were keyed needn't be.
    fn loops<P: SearchProgress>(
        &mut self,
        loops: &[Vec<TargetPlace>],
        progress: &mut P,
    ) -> Result<(), AllocError> {
        for places in loops {
            self.try_unkeyed(places, progress)?;
        }
        Ok(())
    }

    fn try_unkeyed<P: SearchProgress>(
        &mut self,
        places: &[TargetPlace],
        progress: &mut P,
    ) -> Result<bool, AllocError> {
        if self.attempts == 0 {
            return Ok(false);
        }
        let mut coarser = self.configuration.clone()?;
        for place in places {
            coarser.keyed.remove(place);
        }
        self.try_coarser(coarser, progress)
    }

    /// Procedures needn't be parted by a register.
    fn registers<P: SearchProgress>(&mut self, progress: &mut P) -> Result<(), AllocError> {
        let targets = parted_targets(self.alloc, &self.configuration)?;
        self.registers_at(&targets, progress)
    }

    fn registers_at<P: SearchProgress>(
        &mut self,
        targets: &[CodePoint],
        progress: &mut P,
    ) -> Result<(), AllocError> {
        for target in targets {
            for register in REGISTERS {
                self.try_unparted(*target, register, progress)?;
            }
        }
        Ok(())
    }

    fn try_unparted<P: SearchProgress>(
        &mut self,
        target: CodePoint,
        register: Register,
        progress: &mut P,
    ) -> Result<bool, AllocError> {
        let registers = parted_by(&self.configuration, target);
        if self.attempts == 0 || !registers.contains(register) {
            return Ok(false);
        }
        let mut coarser = self.configuration.clone()?;
        coarser
            .parted
            .insert(target, without(&registers, register))?;
        self.try_coarser(coarser, progress)
    }

    /// Takes a coarser configuration, if its certificate is smaller.
    fn try_coarser<P: SearchProgress>(
        &mut self,
        coarser: Configuration,
        progress: &mut P,
    ) -> Result<bool, AllocError> {
        match self.smaller(&coarser, progress)? {
            Some(bytes) => {
                self.best = bytes;
                self.configuration = coarser;
                Ok(true)
            }
            None => Ok(false),
        }
    }

    /// The certificate under a configuration, if it is smaller. One attempt fewer is left.
    fn smaller<P: SearchProgress>(
        &mut self,
        coarser: &Configuration,
        progress: &mut P,
    ) -> Result<Option<Vec<u8>>, AllocError> {
        if self.attempts == 0 || !progress.goes_on() {
            self.attempts = 0;
            return Ok(None);
        }
        self.attempts -= 1;
        match attempt(self.alloc, self.rom, coarser, progress)? {
            Some(bytes) if bytes.len() < self.best.len() => Ok(Some(bytes)),
            _ => Ok(None),
        }
    }
}

fn push_halves<'p>(part: &'p [Spare], left: &mut Vec<&'p [Spare]>) -> Result<(), AllocError> {
    let (first, second) = part.split_at(part.len() / 2);
    left.push(first)?;
    left.push(second)?;
    Ok(())
}

/// The targets whose procedures are parted by registers.
fn parted_targets(
    alloc: Global,
    configuration: &Configuration,
) -> Result<Vec<CodePoint>, AllocError> {
    let mut targets = Vec::new(alloc);
    for target in configuration.parted.keys() {
        targets.push(*target)?;
    }
    Ok(targets)
}

/// The targets outside the switched bank at which several procedures begin.
fn crowded(refinement: &Refinement<'_>) -> Result<Vec<Spare>, AllocError> {
    let mut crowded = Vec::new(refinement.alloc());
    for (target, count) in refinement.targets.iter() {
        if *count > 1 && !(0x4000 <= target.address && target.address < 0x8000) {
            crowded.push(Spare::Parting(*target))?;
        }
    }
    Ok(crowded)
}

/// The tracked cells that aren't part of keys.
fn loose_cells(refinement: &Refinement<'_>) -> Result<Vec<Spare>, AllocError> {
    let mut cells = Vec::new(refinement.alloc());
    for cell in refinement.configuration.tracked.iter() {
        let is_kept = refinement.configuration.kept.contains(cell);
        if !is_kept && !refinement.configuration.key_cells.contains(cell) {
            cells.push(Spare::Cell(*cell))?;
        }
    }
    Ok(cells)
}

/// A smaller certificate than the one at hand, if there is one within some attempts.
pub(crate) fn shrink<P: SearchProgress>(
    refinement: &Refinement<'_>,
    best: Vec<u8>,
    progress: &mut P,
) -> Result<Vec<u8>, AllocError> {
    progress.shrinks();
    let mut configuration = refinement.configuration.clone()?;
    configuration.limit = configuration.limit.min(most_nodes(refinement.nodes));
    let mut shrinking = Shrinking {
        alloc: refinement.alloc(),
        rom: refinement.rom(),
        configuration,
        best,
        attempts: attempts_of(refinement.steps, refinement.pairs),
    };
    shrinking.shrink(refinement, progress)?;
    let Shrinking { best, .. } = shrinking;
    if !progress.goes_on() {
        return Ok(best);
    }
    let less = made_smaller(refinement.alloc(), refinement.rom(), &best)?;
    Ok(less.unwrap_or(best))
}

/// The most nodes of an attempt at a smaller certificate than one with so many: a run of more is given up.
fn most_nodes(nodes: usize) -> usize {
    nodes.saturating_mul(2).saturating_add(SPARE_NODES)
}

/// How many attempts there are, where each takes so many steps, and the check looks at so many pairs of nodes.
fn attempts_of(steps: u64, pairs: u64) -> u64 {
    let cost = steps.saturating_add(pairs.saturating_mul(STEPS_A_PAIR));
    match SHRINK_STEPS.checked_div(cost) {
        Some(attempts) => attempts.min(SHRINK_ATTEMPTS),
        None => SHRINK_ATTEMPTS,
    }
}
