//! Banks that were left mapped: by a handler that doesn't restore the bank of the code that it interrupts, by a routine that
//! leaves its own, or by code that maps another bank than its own. What goes wrong in that bank is a consequence.

use crate::chain::op_of;
use crate::finding::{BankFinding, finding_at};
use crate::steps_back::{Body, MappedBanks, StepBack, is_switched, returns_of, step_back};
use gb_fixpoint::cause::{Cause, Failure};
use gb_fixpoint::code_point::CodePoint;
use gb_fixpoint::gb_ops::op::{Op, StackPair};
use gb_fixpoint::limits::FEW_NODES;
use gb_fixpoint::register_set::RegisterSet;
use gb_fixpoint::types::{Run, RunNode};
use gb_fixpoint::{Code, code_at};
use std::alloc::{AllocError, Global};

/// What left a bank mapped.
#[derive(Clone, Copy, PartialEq, Eq)]
pub enum BankLoser {
    /// The handler of an interrupt, which begins at this vector.
    Handler { vector: u16 },
    /// A routine that begins there.
    Routine { target: CodePoint },
    /// The instruction itself.
    Instruction,
}

/// An instruction that maps a bank.
#[derive(Clone, Copy)]
pub struct Mapping {
    pub point: CodePoint,
    pub code: Code,
    /// The byte of RAM that has the bank's number, where it was loaded from one.
    pub variable: Option<u16>,
    /// Whether another bank is mapped before it, so that it is to map the old one again.
    pub is_second: bool,
}

/// A bank that was left mapped.
#[derive(Clone, Copy)]
pub struct LostBank {
    pub by: BankLoser,
    /// The banks that may be mapped before and after.
    pub was: MappedBanks,
    pub now: MappedBanks,
    /// Where the handler interrupted the code, or the routine was called.
    pub at: CodePoint,
    /// Whether code at 4000-7FFF goes on in the other bank; else the other bank is entered.
    pub goes_on: bool,
    /// The last instruction that maps a bank, in the handler or the routine itself.
    pub mapping: Option<Mapping>,
}

/// A bank that was left mapped, and the number of the node at which it is told.
#[derive(Clone, Copy)]
struct Loss {
    node: usize,
    lost: LostBank,
}

/// How far back an instruction is looked for that loads what another one stores.
const LOADS: usize = 64;

/// Whether the byte in A stays what it was.
fn keeps_a(op: Op) -> bool {
    matches!(
        op,
        Op::StoreHigh(_) | Op::StoreAbsolute(_) | Op::StoreA(_) | Op::Nop | Op::Push(_)
    )
}

/// The node at which AF was pushed that is popped at another one.
fn pushed_at(run: &Run<'_>, pop: usize) -> Option<usize> {
    let bytes = run.nodes.get(pop)?.state.items().len();
    let mut at = pop;
    for _ in 0..LOADS {
        let StepBack { before, .. } = step_back(run, at)?;
        let node = run.nodes.get(before)?;
        if node.state.items().len() < bytes {
            return match op_of(run, node) {
                Some(Op::Push(StackPair::Af)) => Some(before),
                _ => None,
            };
        }
        at = before;
    }
    None
}

/// The byte of RAM from which A was loaded that is stored at a node, where nothing computed with it.
fn variable_of(run: &Run<'_>, number: usize) -> Option<u16> {
    let mut at = number;
    for _ in 0..LOADS {
        let StepBack { before, .. } = step_back(run, at)?;
        let op = op_of(run, run.nodes.get(before)?)?;
        at = match op {
            Op::LoadAbsolute(cell) => return Some(cell),
            Op::LoadHigh(low) => return Some(0xFF00 | u16::from(low)),
            Op::Pop(StackPair::Af) => pushed_at(run, before)?,
            _ if keeps_a(op) => before,
            _ => return None,
        };
    }
    None
}

/// An instruction of a node that maps a bank.
fn mapping_at(run: &Run<'_>, number: usize) -> Option<Mapping> {
    let node = run.nodes.get(number)?;
    Some(Mapping {
        point: node.key.point(),
        code: code_at(&run.program(), run.rom, &node.state, node.key.address),
        variable: variable_of(run, number),
        is_second: false,
    })
}

/// Whether the bank is another one after a node's instruction, or after what that calls, as it was before: a procedure's first node
/// also joins what enters, so that there only a store counts.
fn maps_another(run: &Run<'_>, before: &RunNode, after: &RunNode) -> bool {
    let is_store = match op_of(run, before) {
        Some(op) => op.stored().is_some(),
        None => false,
    };
    MappedBanks::at(run, before) != MappedBanks::at(run, after)
        && (is_store || !before.key.is_entry)
}

/// The last instruction before a return that maps another bank, in what returns there.
fn mapping_before(run: &Run<'_>, last: usize, body: &Body) -> Option<Mapping> {
    let mut at = last;
    let mut found: Option<Mapping> = None;
    for _ in 0..=run.nodes.len() {
        let node = run.nodes.get(at)?;
        if node.key.is_entry || node.key.address == body.target {
            return found;
        }
        let StepBack { before, .. } = step_back(run, at)?;
        if maps_another(run, run.nodes.get(before)?, node) {
            match found {
                Some(mapping) => {
                    return Some(Mapping {
                        is_second: true,
                        ..mapping
                    });
                }
                None => found = mapping_at(run, before),
            }
        }
        at = before;
    }
    found
}

/// The last instruction of a handler or a routine that maps another bank, in itself.
fn last_mapping(alloc: Global, run: &Run<'_>, body: &Body) -> Result<Option<Mapping>, AllocError> {
    for last in &returns_of(alloc, run, body)? {
        if let Some(mapping) = mapping_before(run, *last, body) {
            return Ok(Some(mapping));
        }
    }
    Ok(None)
}

/// What left another bank mapped in a step.
fn loser_of(run: &Run<'_>, step: &StepBack, before: &RunNode) -> BankLoser {
    match step.body {
        Some(body) if body.is_handler => BankLoser::Handler {
            vector: body.target,
        },
        Some(body) => BankLoser::Routine {
            target: CodePoint::of(run.rom, &before.state.core().ctl, body.target),
        },
        None => BankLoser::Instruction,
    }
}

/// A change of the bank: from the node before to the one after a step, on a way that enters 4000-7FFF later, if it does, at a node.
#[derive(Clone, Copy)]
struct BankChange {
    step: StepBack,
    after: usize,
    entering: Option<usize>,
}

impl BankChange {
    /// The nodes before and after.
    fn nodes<'a>(&self, run: &'a Run<'_>) -> Option<(&'a RunNode, &'a RunNode)> {
        Some((run.nodes.get(self.step.before)?, run.nodes.get(self.after)?))
    }

    /// Whether code at 4000-7FFF goes on in another bank.
    fn goes_on(&self, run: &Run<'_>) -> bool {
        match self.nodes(run) {
            Some((before, after)) => is_switched(before) && is_switched(after),
            None => false,
        }
    }

    fn is_of_handler(&self) -> bool {
        match self.step.body {
            Some(body) => body.is_handler,
            None => false,
        }
    }

    /// Whether nobody means it: outside 4000-7FFF a bank that is known is mapped on purpose, unless a handler does it.
    fn is_loss(&self, run: &Run<'_>) -> bool {
        let is_known = match self.nodes(run) {
            Some((_, after)) => MappedBanks::at(run, after).is_known(),
            None => true,
        };
        self.is_of_handler() || self.goes_on(run) || !is_known
    }

    /// The bank that was left mapped.
    fn told(&self, alloc: Global, run: &Run<'_>) -> Result<Option<Loss>, AllocError> {
        let Some((before, after)) = self.nodes(run) else {
            return Ok(None);
        };
        let goes_on = self.goes_on(run);
        let node = if goes_on {
            Some(self.step.before)
        } else {
            self.entering
        };
        let mapping = match &self.step.body {
            Some(body) => last_mapping(alloc, run, body)?,
            None => mapping_at(run, self.step.before),
        };
        let lost = LostBank {
            by: loser_of(run, &self.step, before),
            was: MappedBanks::at(run, before),
            now: MappedBanks::at(run, after),
            at: before.key.point(),
            goes_on,
            mapping,
        };
        Ok(node.map(|node| Loss { node, lost }))
    }
}

/// The node of another call of the procedure that begins at a node, with other banks than those of the first one.
fn other_site(run: &Run<'_>, node: &RunNode, banks: MappedBanks) -> Option<usize> {
    let procedure = run.procedures.get(node.key.procedure)?;
    for site in &procedure.sites {
        if let Some(calling) = run.nodes.get(*site)
            && MappedBanks::at(run, calling) != banks
        {
            return Some(*site);
        }
    }
    None
}

/// A node from which the way back to where a bank was lost goes on.
#[derive(Clone, Copy)]
struct WayBack {
    at: usize,
    /// The last node before 4000-7FFF was entered, if it was since.
    entering: Option<usize>,
    /// Whether it ends where its procedure begins, since it was entered at its end.
    is_inside: bool,
}

/// The last change of the bank on a way to a node. Where a procedure joins calls with several banks, the way goes on at one that has
/// another bank than the first.
fn last_change(run: &Run<'_>, way: WayBack) -> Option<BankChange> {
    let WayBack {
        mut at,
        mut entering,
        is_inside,
    } = way;
    for _ in 0..=run.nodes.len() {
        let node = run.nodes.get(at)?;
        let step = step_back(run, at)?;
        let before = run.nodes.get(step.before)?;
        if is_switched(node) && !is_switched(before) {
            entering = Some(step.before);
        }
        let banks = MappedBanks::at(run, before);
        let is_changed = banks != MappedBanks::at(run, node);
        if is_changed && !node.key.is_entry {
            let after = at;
            return Some(BankChange {
                step,
                after,
                entering,
            });
        }
        if node.key.is_entry && is_inside {
            return None;
        }
        at = if is_changed {
            other_site(run, node, banks)?
        } else {
            step.before
        };
    }
    None
}

/// How many changes of the bank are looked at.
const CHANGES: usize = 32;

/// The change of the bank that lost it on the way to a node: the last one that a handler made where the bank was known, or else the
/// last one. Where a routine returns with several banks, or a handler interrupted code with several, it was lost before.
fn lost_on_way(
    alloc: Global,
    run: &Run<'_>,
    number: usize,
) -> Result<Option<BankChange>, AllocError> {
    let mut left = Vec::new(alloc);
    left.push(WayBack {
        at: number,
        entering: None,
        is_inside: false,
    })?;
    let mut first = None;
    for _ in 0..CHANGES {
        let Some(way) = left.pop() else { break };
        let Some(change) = last_change(run, way) else {
            continue;
        };
        if !change.is_loss(run) {
            continue;
        }
        let is_certain = match change.nodes(run) {
            Some((before, _)) => MappedBanks::at(run, before).is_known(),
            None => false,
        };
        if change.goes_on(run) || (change.is_of_handler() && is_certain) {
            return Ok(Some(change));
        }
        if first.is_none() {
            first = Some(change);
        }
        add_ways(alloc, run, &change, way.is_inside, &mut left)?;
    }
    Ok(first)
}

/// Adds the ways back from a change of the bank: through the routine that made it, and before it.
fn add_ways(
    alloc: Global,
    run: &Run<'_>,
    change: &BankChange,
    is_inside: bool,
    left: &mut Vec<WayBack>,
) -> Result<(), AllocError> {
    let entering = change.entering;
    if change.is_of_handler() {
        left.push(WayBack {
            at: change.step.before,
            entering,
            is_inside,
        })?;
        return Ok(());
    }
    if let Some(body) = &change.step.body {
        for at in &returns_of(alloc, run, body)? {
            left.push(WayBack {
                at: *at,
                entering,
                is_inside: true,
            })?;
        }
    }
    Ok(())
}

/// Whether code at 4000-7FFF goes on at a node in another bank than before, where both are known.
fn goes_astray(run: &Run<'_>, node: &RunNode) -> bool {
    let Some(before) = node.via.and_then(|number| run.nodes.get(number)) else {
        return false;
    };
    let (was, now) = (MappedBanks::at(run, before), MappedBanks::at(run, node));
    was != now
        && was.is_known()
        && now.is_known()
        && !node.key.is_entry
        && is_switched(node)
        && is_switched(before)
}

/// The first change of the bank while code at 4000-7FFF runs.
fn first_astray(run: &Run<'_>) -> Option<BankChange> {
    for (after, node) in run.nodes.iter().enumerate() {
        if goes_astray(run, node)
            && let Some(step) = step_back(run, after)
        {
            return Some(BankChange {
                step,
                after,
                entering: None,
            });
        }
    }
    None
}

/// Whether two changes are one handler's.
fn are_of_one_handler(one: &BankChange, other: &BankChange) -> bool {
    match (one.step.body, other.step.body) {
        (Some(one), Some(other)) => {
            one.is_handler && other.is_handler && one.target == other.target
        }
        _ => false,
    }
}

/// The change of the bank that a failure comes from: that on the way there, or else one while code at 4000-7FFF runs, which is
/// always a mistake. If a handler made both, the second one is plainer; in a large run it isn't looked for.
fn lost_before(
    alloc: Global,
    run: &Run<'_>,
    failure: &Failure,
) -> Result<Option<BankChange>, AllocError> {
    let on_way = lost_on_way(alloc, run, failure.node)?;
    let astray = if run.nodes.len() <= FEW_NODES {
        first_astray(run)
    } else {
        None
    };
    Ok(match (on_way, astray) {
        (Some(on_way), Some(astray)) if are_of_one_handler(&on_way, &astray) => Some(astray),
        (Some(on_way), _) => Some(on_way),
        (None, astray) => astray,
    })
}

/// So many banks are always mapped.
const FIXED: u16 = 2;

/// The finding of a bank that was left mapped, and from which a failure follows.
pub fn bank_finding(
    alloc: Global,
    run: &Run<'_>,
    failure: &Failure,
) -> Result<Option<BankFinding>, AllocError> {
    if run.rom.banks() <= FIXED {
        return Ok(None);
    }
    let Some(change) = lost_before(alloc, run, failure)? else {
        return Ok(None);
    };
    let Some(loss) = change.told(alloc, run)? else {
        return Ok(None);
    };
    let at = Failure {
        node: loss.node,
        cause: Cause::Bank,
        registers: RegisterSet::empty(),
    };
    match finding_at(alloc, run, &at)? {
        Some(finding) => Ok(Some(BankFinding::of(alloc, finding, loss.lost))),
        None => Ok(None),
    }
}
