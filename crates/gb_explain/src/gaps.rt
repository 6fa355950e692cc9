//! Finds what a certificate lacks for a node.

use crate::broken::broken_fact;
use crate::calls::{called_gaps, callee_gaps};
use crate::covering::way_gaps;
use crate::depth::{call_gaps, moved_gaps};
use crate::gap::{After, Gaps, GoesOn};
use crate::interrupts::interrupt_gaps;
use crate::returns::return_gaps;
use gb_verify::gb_ops::decode::decode;
use gb_verify::gb_ops::op::Row;
use gb_verify::{
    Abs, Cert, NodeRef, Program, Reason, Rom, Successor, Successors, Target, known_bytes,
    program_of, stack_of, successors_of,
};

/// What is missing where a successor goes on: in its procedure, after a call, or in main.
fn uncovered_gaps(
    program: &Program<'_>,
    cert: &Cert<'_>,
    procedure: u16,
    successor: &Successor<'_>,
) -> Option<Gaps> {
    match successor.target {
        Target::At(address) => {
            let after = After::Instruction;
            way_gaps(
                program,
                cert,
                procedure,
                GoesOn { after, address },
                &successor.state(),
            )
        }
        Target::Main(address) => {
            let after = After::Restart;
            way_gaps(
                program,
                cert,
                0,
                GoesOn { after, address },
                &successor.state(),
            )
        }
        Target::Call(address) => called_gaps(program, cert, procedure, address, successor),
        Target::Return | Target::Unknown | Target::Lost => None,
    }
}

/// What is missing of a successor of these states, by the reason.
fn successor_gaps(
    program: &Program<'_>,
    cert: &Cert<'_>,
    procedure: u16,
    reason: Reason,
    state: &Abs,
    way: &Option<Successor<'_>>,
) -> Option<Gaps> {
    let Some(successor) = way else { return None };
    match reason {
        Reason::Depth => call_gaps(program, cert, procedure, successor),
        Reason::Uncovered => uncovered_gaps(program, cert, procedure, successor),
        Reason::Callee => callee_gaps(program, cert, procedure, successor),
        Reason::Return => return_gaps(program, cert, procedure, state, successor),
        _ => None,
    }
}

/// What is missing of the first successor against which the reason is.
fn successors_gaps(
    program: &Program<'_>,
    cert: &Cert<'_>,
    procedure: u16,
    reason: Reason,
    state: &Abs,
    ways: &Successors<'_>,
) -> Option<Gaps> {
    let taken = successor_gaps(program, cert, procedure, reason, state, &ways.taken);
    if taken.is_some() {
        return taken;
    }
    let not_taken = successor_gaps(program, cert, procedure, reason, state, &ways.not_taken);
    if not_taken.is_some() {
        return not_taken;
    }
    successor_gaps(program, cert, procedure, reason, state, &ways.stays)
}

/// What is missing where a node goes on, with the fact that its store breaks, if that isn't shown.
fn stored_gaps(program: &Program<'_>, ways: &Successors<'_>, gaps: Gaps) -> Gaps {
    match gaps.unshown_fact() {
        None => gaps,
        Some(number) => Gaps {
            broken: broken_fact(program, number, &ways.taken),
            ..gaps
        },
    }
}

/// What makes the stack too deep: the instruction itself, what it calls, or an interrupt's dispatch.
fn depth_gaps(
    program: &Program<'_>,
    cert: &Cert<'_>,
    node: &NodeRef<'_>,
    state: &Abs,
    row: Row,
    ways: &Successors<'_>,
) -> Option<Gaps> {
    let procedure = node.procedure();
    let moved = moved_gaps(cert, procedure, state, row.op, &ways.taken);
    if moved.is_some() {
        return moved;
    }
    let called = successors_gaps(program, cert, procedure, Reason::Depth, state, ways);
    if called.is_some() {
        return called;
    }
    interrupt_gaps(program, cert, node, Reason::Depth, state)
}

/// What is missing of a node, where the reason has to do with the stack's depth, with other nodes, with procedures or,
/// by the rules of version 3, with interrupts: for the first of its successors, or of the interrupts, against which the
/// reason is.
pub fn gaps_of(rom: &Rom<'_>, cert: &Cert<'_>, node: &NodeRef<'_>, reason: Reason) -> Option<Gaps> {
    let state = node.state();
    let program = &program_of(rom, cert);
    let bytes = known_bytes(program, rom, &state, node.address())?;
    let row = decode(&bytes)?;
    let procedure = node.procedure();
    let ways = successors_of(
        stack_of(cert, procedure),
        program,
        rom,
        row,
        node.address(),
        &state,
    );
    match reason {
        Reason::Depth => depth_gaps(program, cert, node, &state, row, &ways),
        Reason::Interrupt => interrupt_gaps(program, cert, node, reason, &state),
        _ => {
            let gaps = successors_gaps(program, cert, procedure, reason, &state, &ways)?;
            Some(stored_gaps(program, &ways, gaps))
        }
    }
}
