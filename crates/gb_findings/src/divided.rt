//! Divisions shortly before an access: nothing bounds what one gives, which an author doesn't see in the code.

use crate::chain::{is_call_of, is_far, is_return, op_of};
use crate::path::node_at;
use gb_fixpoint::gb_ops::op::{AluOp, Op, Operand, Shift};
use gb_fixpoint::register_set::{REGISTERS, RegisterSet};
use gb_fixpoint::types::{Run, RunNode};
use std::alloc::{AllocError, Global};
use std::collections::BTreeSet;

/// How many instructions before an access a division is looked for.
const STEPS: u32 = 100;

/// How many calls below a call.
const CALLS: u32 = 4;

/// What was seen of a division by shifts and subtractions: the remainder's bytes and the dividend's are shifted left by RL, and a
/// register is subtracted.
#[derive(Clone, Copy)]
struct Division {
    shifted: RegisterSet,
    subtracts: bool,
}

impl Division {
    fn new() -> Division {
        Division {
            shifted: RegisterSet::empty(),
            subtracts: false,
        }
    }

    /// One more instruction.
    fn see(&mut self, op: Option<Op>) {
        match op {
            Some(Op::Shift(Shift::Rl, Operand::Register(register))) => self
                .shifted
                .insert(register),
            Some(Op::Alu(AluOp::Sub | AluOp::Sbc | AluOp::Cp, Operand::Register(_))) => {
                self.subtracts = true;
            }
            _ => {}
        }
    }

    /// Whether all of it was seen: two registers are shifted at least.
    fn is_whole(&self) -> bool {
        let shifted = REGISTERS
            .iter()
            .filter(|register| self.shifted.contains(**register))
            .count();
        self.subtracts && shifted > 1
    }
}

/// Whether a procedure's own instructions divide.
fn divides(run: &Run<'_>, number: usize) -> bool {
    let mut division = Division::new();
    for node in &run.nodes {
        if node.key.procedure == number {
            division.see(op_of(run, node));
        }
    }
    division.is_whole()
}

/// Whether a procedure divides, or one that it calls.
fn divides_below(alloc: Global, run: &Run<'_>, number: usize) -> Result<bool, AllocError> {
    let mut seen = BTreeSet::new(alloc);
    seen.insert(number)?;
    for _ in 0..CALLS {
        let mut below = Vec::new(alloc);
        for call in run.calls.iter() {
            if seen.contains(&call.caller) {
                below.push(call.callee)?;
            }
        }
        for callee in &below {
            seen.insert(*callee)?;
        }
    }
    for procedure in seen.iter() {
        if divides(run, *procedure) {
            return Ok(true);
        }
    }
    Ok(false)
}

/// Whether a node calls what divides.
fn calls_division(alloc: Global, run: &Run<'_>, number: usize) -> Result<bool, AllocError> {
    for (callee, procedure) in run.procedures.iter().enumerate() {
        if !procedure.key.is_handler
            && procedure.sites.contains(&number)
            && divides_below(alloc, run, callee)?
        {
            return Ok(true);
        }
    }
    Ok(false)
}

/// The way back from an access, in its own routine and in what that called.
#[derive(Drop)]
struct WayBack<'a, 'r> {
    alloc: Global,
    run: &'a Run<'r>,
    division: Division,
    /// How many routines that were followed here have ended, and not begun yet.
    depth: u32,
}

impl<'a, 'r> WayBack<'a, 'r> {
    /// Goes back over a node: whether a division is found; nothing where the routine of the access begins.
    fn go_back(
        &mut self,
        number: usize,
        before: &RunNode,
        node: &RunNode,
    ) -> Result<Option<bool>, AllocError> {
        let op = op_of(self.run, before);
        if node.key.is_entry || is_call_of(op, node.key.address) {
            if self.depth == 0 {
                return Ok(None);
            }
            self.depth = self.depth.saturating_sub(1);
            return Ok(Some(false));
        }
        if is_return(op) && is_far(before.key.address, node.key.address) {
            self.depth = self.depth.saturating_add(1);
        }
        self.division.see(op);
        let is_call = matches!(op, Some(Op::Call(_) | Op::CallIf(..) | Op::Restart(_)));
        let is_found = self.division.is_whole()
            || is_call && calls_division(self.alloc, self.run, number)?;
        Ok(Some(is_found))
    }
}

/// Whether there was a division shortly before a node, in its routine or in what that called: what it gives isn't an argument.
pub(crate) fn is_behind_division(
    alloc: Global,
    run: &Run<'_>,
    node: &RunNode,
) -> Result<bool, AllocError> {
    let mut way = WayBack {
        alloc,
        run,
        division: Division::new(),
        depth: 0,
    };
    let mut node = node;
    for _ in 0..STEPS {
        let (Some(number), Some(before)) = (node.via, node_at(run, node.via)) else {
            break;
        };
        match way.go_back(number, before, node)? {
            Some(true) => return Ok(true),
            Some(false) => node = before,
            None => break,
        }
    }
    Ok(false)
}
