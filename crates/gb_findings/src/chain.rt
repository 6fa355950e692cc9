//! The calls on the way to a node: from power-up, or from the interrupt that leads there.

use crate::path::{bank_of, entered_from, is_handler, node_at};
use gb_fixpoint::gb_ops::decode::decode;
use gb_fixpoint::gb_ops::op::Op;
use gb_fixpoint::register_set::RegisterSet;
use gb_fixpoint::types::{Run, RunNode};
use gb_fixpoint::{interrupt_at, known_bytes};
use std::alloc::{AllocError, Global};

/// What a chain of calls begins with.
#[derive(Clone, Copy)]
pub enum Root {
    PowerUp,
    /// The interrupt whose handler begins at this vector.
    Interrupt { vector: u16 },
}

/// A routine that was entered on the way.
#[derive(Clone, Copy)]
pub struct EnteredRoutine {
    /// Where it was called, and the bank mapped there, where it is known.
    pub from: u16,
    pub from_bank: Option<u16>,
    /// Where it begins, and the bank mapped there, where it is known.
    pub target: u16,
    pub bank: Option<u16>,
}

/// The calls that lead to a node, the outermost first.
#[derive(Drop)]
pub struct CallChain {
    pub root: Root,
    pub calls: Vec<EnteredRoutine>,
}

/// How a node is reached from the one before it.
#[derive(Clone, Copy)]
enum Approach {
    /// By a call.
    Call,
    /// By an interrupt.
    Dispatch,
    /// By the return of a routine that was followed in its caller.
    Return,
    /// By the next instruction, or a jump.
    On,
}

/// The instruction of a node, where it is known.
pub fn op_of(run: &Run<'_>, node: &RunNode) -> Option<Op> {
    let bytes = known_bytes(&run.program(), run.rom, &node.state, node.key.address)?;
    let row = decode(&bytes)?;
    Some(row.op)
}

/// Whether an address isn't that of the next instruction.
pub(crate) fn is_far(from: u16, to: u16) -> bool {
    to <= from || to - from > 3
}

/// Whether an instruction calls an address.
pub fn is_call_of(op: Option<Op>, address: u16) -> bool {
    match op {
        Some(Op::Call(target) | Op::CallIf(_, target)) => target == address,
        Some(Op::Restart(target)) => u16::from(target) == address,
        _ => false,
    }
}

/// Whether an instruction may return: SDCC's routines that clean up their arguments do so by JP HL.
pub fn is_return(op: Option<Op>) -> bool {
    matches!(
        op,
        Some(Op::Return | Op::ReturnIf(_) | Op::ReturnFromInterrupt | Op::JumpHl)
    )
}

/// How a node that begins no procedure is reached.
fn move_within(run: &Run<'_>, before: &RunNode, address: u16) -> Approach {
    let op = op_of(run, before);
    if is_call_of(op, address) {
        Approach::Call
    } else if !is_far(before.key.address, address) {
        Approach::On
    } else if is_return(op) {
        Approach::Return
    } else if interrupt_at(address).is_some() {
        Approach::Dispatch
    } else {
        Approach::On
    }
}

fn move_of(run: &Run<'_>, before: &RunNode, node: &RunNode) -> Approach {
    if !node.key.is_entry {
        return move_within(run, before, node.key.address);
    }
    if is_handler(run, node.key.procedure) {
        Approach::Dispatch
    } else {
        Approach::Call
    }
}

fn entered_by(run: &Run<'_>, before: &RunNode, node: &RunNode) -> EnteredRoutine {
    EnteredRoutine {
        from: before.key.address,
        from_bank: bank_of(run, before),
        target: node.key.address,
        bank: bank_of(run, node),
    }
}

/// The address that a call pushes.
fn return_address(op: Option<Op>, from: u16) -> u16 {
    match op {
        Some(Op::Restart(_)) => from.wrapping_add(1),
        _ => from.wrapping_add(3),
    }
}

/// A return: where it led to, and how many bytes were on the stack then.
#[derive(Clone, Copy)]
struct Returned {
    address: u16,
    bytes: usize,
}

/// The calls that lead to a node, the innermost first, while they are gathered.
#[derive(Drop)]
struct Gathering<'a, 'r> {
    run: &'a Run<'r>,
    calls: Vec<EnteredRoutine>,
    /// The returns since, of routines that were followed in their callers, the last one first.
    returns: Vec<Returned>,
}

impl<'a, 'r> Gathering<'a, 'r> {
    /// Whether a routine that was entered from a node, and goes back to this address, has ended since.
    fn has_ended(&mut self, before: &RunNode, back: u16) -> bool {
        self.forget(back) || self.has_left(before)
    }

    /// Whether there was a return to an address; that one and those before it are forgotten.
    fn forget(&mut self, back: u16) -> bool {
        match self
            .returns
            .iter()
            .position(|returned| returned.address == back)
        {
            Some(place) => {
                self.returns.truncate(place);
                true
            }
            None => false,
        }
    }

    /// Whether a routine that was entered from a node took its return address off the stack and went elsewhere, as a routine for
    /// RST does that jumps by a table.
    fn has_left(&mut self, before: &RunNode) -> bool {
        let bytes = before.state.items().len();
        match self.returns.last() {
            Some(returned) if returned.bytes == bytes => {
                drop(self.returns.pop());
                true
            }
            Some(returned) => returned.bytes < bytes,
            None => false,
        }
    }

    /// A call, unless its routine has ended.
    fn add(&mut self, before: &RunNode, node: &RunNode) -> Result<(), AllocError> {
        if node.key.is_entry {
            self.returns.clear();
        } else {
            let back = return_address(op_of(self.run, before), before.key.address);
            if self.has_ended(before, back) {
                return Ok(());
            }
        }
        self.calls.push(entered_by(self.run, before, node))?;
        Ok(())
    }

    /// Goes back over a node; something where the chain begins with it.
    fn go_back(&mut self, before: &RunNode, node: &RunNode) -> Result<Option<Root>, AllocError> {
        match move_of(self.run, before, node) {
            Approach::On => Ok(None),
            Approach::Return => {
                self.returns.push(Returned {
                    address: node.key.address,
                    bytes: node.state.items().len(),
                })?;
                Ok(None)
            }
            Approach::Call => {
                self.add(before, node)?;
                Ok(None)
            }
            Approach::Dispatch
                if !node.key.is_entry && self.has_ended(before, before.key.address) => { Ok(None) }
            Approach::Dispatch => Ok(Some(Root::Interrupt {
                vector: node.key.address,
            })),
        }
    }

    /// Goes back from a node to what its chain begins with: out of its own procedure by the call that knows least of some registers.
    fn gather(&mut self, number: usize, registers: &RegisterSet) -> Result<Root, AllocError> {
        let mut at = Some(number);
        let mut is_own = true;
        for _ in 0..=self.run.nodes.len() {
            let Some(node) = node_at(self.run, at) else {
                break;
            };
            let via = if node.key.is_entry && is_own {
                is_own = false;
                entered_from(self.run, node, registers)
            } else {
                node.via
            };
            let Some(before) = node_at(self.run, via) else {
                break;
            };
            if let Some(root) = self.go_back(before, node)? {
                return Ok(root);
            }
            at = via;
        }
        Ok(Root::PowerUp)
    }
}

impl CallChain {
    /// The calls that lead to a node at which some registers matter.
    pub fn to(
        alloc: Global,
        run: &Run<'_>,
        number: usize,
        registers: &RegisterSet,
    ) -> Result<CallChain, AllocError> {
        let mut gathering = Gathering {
            run,
            calls: Vec::new(alloc),
            returns: Vec::new(alloc),
        };
        let root = gathering.gather(number, registers)?;
        let Gathering { mut calls, .. } = gathering;
        calls.reverse();
        Ok(CallChain { root, calls })
    }
}
