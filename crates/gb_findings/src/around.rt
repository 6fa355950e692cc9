//! What is around an access: a loop, and a test of the byte that it reads.

use gb_fixpoint::code_point::CodePoint;
use gb_fixpoint::gb_ops::decode::decode;
use gb_fixpoint::gb_ops::op::{AluOp, Op, Operand, Register, Row};
use gb_fixpoint::known_bytes;
use gb_fixpoint::types::{Run, RunNode};
use std::alloc::{AllocError, Global};
use std::collections::BTreeSet;

/// The most instructions of a loop that counts as one around an access: a game's main loop isn't meant.
const POINTS: usize = 256;

/// Whether code leads from one point to another, in a procedure and over few instructions.
fn leads_to(
    alloc: Global,
    run: &Run<'_>,
    procedure: usize,
    from: CodePoint,
    to: CodePoint,
) -> Result<bool, AllocError> {
    let mut seen = BTreeSet::new(alloc);
    let mut left = Vec::new(alloc);
    left.push(from)?;
    for _ in 0..POINTS {
        let Some(at) = left.pop() else { break };
        for edge in run.edges.iter() {
            if edge.procedure == procedure && edge.from == at {
                if edge.to == to {
                    return Ok(true);
                }
                if seen.insert(edge.to)? {
                    left.push(edge.to)?;
                }
            }
        }
    }
    Ok(false)
}

/// Whether code leads from a node back to its own address, in its procedure and over few instructions.
pub(crate) fn is_in_loop(alloc: Global, run: &Run<'_>, node: &RunNode) -> Result<bool, AllocError> {
    let here = node.key.point();
    leads_to(alloc, run, node.key.procedure, here, here)
}

/// Whether one of the ways on from an address in a node's procedure doesn't lead back to the node.
fn leaves_loop(
    alloc: Global,
    run: &Run<'_>,
    node: &RunNode,
    address: u16,
) -> Result<bool, AllocError> {
    let here = node.key.point();
    let from = CodePoint { address, ..here };
    for edge in run.edges.iter() {
        if edge.procedure == node.key.procedure
            && edge.from == from
            && edge.to != here
            && !leads_to(alloc, run, node.key.procedure, edge.to, here)?
        {
            return Ok(true);
        }
    }
    Ok(false)
}

/// How many instructions behind a load are looked at.
const BEHIND: u32 = 4;

/// The register into which an instruction loads a byte through a pointer.
fn loaded_through(op: Op) -> Option<Register> {
    match op {
        Op::LoadA(_) => Some(Register::A),
        Op::Load(Operand::Register(register), Operand::AtHl) => Some(register),
        _ => None,
    }
}

/// Whether an instruction tells whether A is 0.
fn tests_a(op: Op) -> bool {
    matches!(
        op,
        Op::Alu(AluOp::Or | AluOp::And, Operand::Register(Register::A))
            | Op::AluImmediate(AluOp::Cp, 0)
    )
}

/// Whether an instruction leaves the byte that was read where it is, or takes it to A.
fn takes_on(op: Op, register: Register) -> bool {
    match op {
        Op::IncrementPair(_) => true,
        Op::Load(Operand::Register(Register::A), Operand::Register(from)) => from == register,
        _ => false,
    }
}

/// Where the byte that a node reads through a pointer has been tested for 0: the address behind the test.
fn behind_test(run: &Run<'_>, node: &RunNode) -> Option<u16> {
    let mut address = node.key.address;
    let mut register = None;
    for _ in 0..BEHIND {
        let row = row_at(run, node, address)?;
        let next = address.checked_add(row.length.into())?;
        register = match register {
            None => loaded_through(row.op),
            Some(_) if tests_a(row.op) => return Some(next),
            Some(from) if takes_on(row.op, from) => Some(from),
            Some(_) => None,
        };
        register?;
        address = next;
    }
    None
}

/// The instruction at an address, by what a node knows.
fn row_at(run: &Run<'_>, node: &RunNode, address: u16) -> Option<Row> {
    let bytes = known_bytes(&run.program(), run.rom, &node.state, address)?;
    decode(&bytes)
}

/// Whether a node reads a byte through a pointer, and where that is 0 its loop ends: so a text is read up to its end.
pub(crate) fn reads_text(alloc: Global, run: &Run<'_>, node: &RunNode) -> Result<bool, AllocError> {
    let Some(branch) = behind_test(run, node) else {
        return Ok(false);
    };
    let Some(row) = row_at(run, node, branch) else {
        return Ok(false);
    };
    match row.op {
        Op::ReturnIf(_) => Ok(true),
        Op::JumpIf(..) | Op::JumpRelativeIf(..) => leaves_loop(alloc, run, node, branch),
        _ => Ok(false),
    }
}
