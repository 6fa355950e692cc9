//! Goes back over a run's nodes. What a routine or a handler did between two nodes of its caller is one step.

use crate::chain::{is_call_of, is_return, op_of};
use gb_fixpoint::types::{Run, RunNode, RunProcedure};
use gb_fixpoint::{interrupt_at, known_bank};
use std::alloc::{AllocError, Global};
use std::fmt;

/// The first address of the switched bank.
const SWITCHED: u16 = 0x4000;

/// From this one on the last bank says that any may be mapped.
const ANY: u16 = 127;

/// The banks that may be mapped at 4000-7FFF, from the first to the last.
#[derive(Clone, Copy, PartialEq, Eq)]
pub struct MappedBanks {
    pub first: u16,
    pub last: u16,
}

impl MappedBanks {
    /// Those of a node's state.
    pub fn at(run: &Run<'_>, node: &RunNode) -> MappedBanks {
        let ctl = &node.state.core().ctl;
        match known_bank(run.rom, ctl, SWITCHED) {
            Some(bank) => MappedBanks {
                first: bank,
                last: bank,
            },
            None => MappedBanks {
                first: ctl.bank_lo,
                last: ctl.bank_hi,
            },
        }
    }

    /// Whether there is one alone.
    pub fn is_known(self) -> bool {
        self.first == self.last
    }
}

impl fmt::Display for MappedBanks {
    fn fmt<W: fmt::Write>(&self, f: &mut fmt::Formatter<W>) -> fmt::Result {
        let MappedBanks { first, last } = *self;
        if first == last {
            write!(f, "bank {first}")
        } else if first == 0 && last >= ANY {
            write!(f, "any bank")
        } else {
            write!(f, "one of banks {first} to {last}")
        }
    }
}

/// Whether a node's instruction is in the switched bank.
pub fn is_switched(node: &RunNode) -> bool {
    SWITCHED <= node.key.address && node.key.address < 0x8000
}

/// What ran between a call, or the instruction that was interrupted, and the next instruction there.
#[derive(Clone, Copy)]
pub struct Body {
    /// Where it begins.
    pub target: u16,
    pub is_handler: bool,
    pub nodes: BodyNodes,
}

/// The nodes of what ran.
#[derive(Clone, Copy)]
pub enum BodyNodes {
    /// Those of a procedure, by its number.
    Procedure(usize),
    /// Those of its caller's procedure, up to the node of its return: it was followed there.
    UpTo(usize),
}

/// A step back.
#[derive(Clone, Copy)]
pub struct StepBack {
    /// The number of the node before.
    pub before: usize,
    /// What ran in between, if the step is from behind it.
    pub body: Option<Body>,
}

/// Whether a node is where its caller goes on after a routine that was called at another one, or a handler that interrupted it.
fn is_behind(run: &Run<'_>, before: &RunNode, node: &RunNode) -> bool {
    MappedBanks::at(run, before) != MappedBanks::at(run, node)
        || before.key.address == node.key.address
}

/// Whether a procedure returns, and doesn't leave the controller as it was.
fn leaves_another(procedure: &RunProcedure) -> bool {
    match &procedure.exit {
        Some(exit) => !exit.core().ctl.kept.are_all(),
        None => false,
    }
}

/// The nodes at which what ran returns.
pub fn returns_of(alloc: Global, run: &Run<'_>, body: &Body) -> Result<Vec<usize>, AllocError> {
    let mut returns = Vec::new(alloc);
    match body.nodes {
        BodyNodes::UpTo(last) => returns.push(last)?,
        BodyNodes::Procedure(procedure) => {
            for (number, node) in run.nodes.iter().enumerate() {
                if node.key.procedure == procedure && is_return(op_of(run, node)) {
                    returns.push(number)?;
                }
            }
        }
    }
    Ok(returns)
}

/// The procedure that ran between two nodes of its caller, and left another bank.
fn ran_between(run: &Run<'_>, before: usize, after: &RunNode) -> Option<Body> {
    let first = run.nodes.get(before)?;
    let op = op_of(run, first);
    let is_same = first.key.address == after.key.address;
    for (number, procedure) in run.procedures.iter().enumerate() {
        let key = procedure.key;
        let is_one = if key.is_handler {
            is_same
        } else {
            !is_same && is_call_of(op, key.target)
        };
        if is_one && leaves_another(procedure) && procedure.sites.contains(&before) {
            return Some(Body {
                target: key.target,
                is_handler: key.is_handler,
                nodes: BodyNodes::Procedure(number),
            });
        }
    }
    None
}

/// The node from which a routine was entered that was followed in its caller and has returned to a node, and where it begins.
fn followed_from(run: &Run<'_>, last: usize, after: &RunNode) -> Option<(usize, u16)> {
    let bytes = after.state.items().len();
    let mut at = last;
    for _ in 0..=run.nodes.len() {
        let node = run.nodes.get(at)?;
        if node.key.is_entry {
            return None;
        }
        let before = node.via?;
        if run.nodes.get(before)?.state.items().len() <= bytes {
            return Some((before, node.key.address));
        }
        at = before;
    }
    None
}

/// The step back from the node that a return led to, in the caller of what returned.
fn step_over(run: &Run<'_>, last: usize, after: &RunNode) -> StepBack {
    match followed_from(run, last, after) {
        Some((before, target)) => StepBack {
            before,
            body: Some(Body {
                target,
                is_handler: interrupt_at(target).is_some(),
                nodes: BodyNodes::UpTo(last),
            }),
        },
        None => StepBack {
            before: last,
            body: None,
        },
    }
}

/// The step back from a node, over what ran in between; none from power-up's.
pub fn step_back(run: &Run<'_>, number: usize) -> Option<StepBack> {
    let node = run.nodes.get(number)?;
    let before = node.via?;
    let first = run.nodes.get(before)?;
    let plain = StepBack { before, body: None };
    if node.key.is_entry {
        return Some(plain);
    }
    // A handler comes back to the instruction that it interrupted, which may be a return itself.
    if first.key.address != node.key.address && is_return(op_of(run, first)) {
        return Some(step_over(run, before, node));
    }
    if is_behind(run, first, node) {
        let body = ran_between(run, before, node);
        return Some(StepBack { before, body });
    }
    Some(plain)
}
