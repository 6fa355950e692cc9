//! Comparisons of a known number with a byte that isn't known, as `LD A,4` / `SUB A,(HL)` / `JR C`: what a compiler makes of a `switch`
//! and of `x > 4`. No rule learns from the carry what the byte is, so its two parts are told apart before.

use crate::plan::{Edit, Plan, unless_empty};
use crate::spots::{is_known, op_at, place_of, pointed_by, value_of};
use crate::ways::Ways;
use gb_fixpoint::gb_ops::op::{AluOp, Condition, Op, Operand, Pointer, Register};
use gb_fixpoint::types::{Run, RunNode, Spot};
use gb_fixpoint::{Val, cell_at, is_ram};
use std::alloc::{AllocError, Global};

/// What a known number is compared with at a spot, where the carry is looked at right behind.
fn compared_at(run: &Run<'_>, ways: &Ways, spot: Spot) -> Option<Operand> {
    let operand = match op_at(run, spot)? {
        Op::Alu(AluOp::Sub | AluOp::Cp, operand) if operand != Operand::Register(Register::A) => {
            operand
        }
        _ => return None,
    };
    let point = ways.only_behind(spot.point)?;
    match op_at(run, Spot { point, ..spot })? {
        Op::JumpRelativeIf(condition, _)
        | Op::JumpIf(condition, _)
        | Op::CallIf(condition, _)
        | Op::ReturnIf(condition)
            if condition == Condition::Carry || condition == Condition::NotCarry => Some(operand),
        _ => None,
    }
}

/// The value of an operand at a node, where it is a register or a byte of RAM.
fn operand_at(node: &RunNode, operand: Operand) -> Option<Val> {
    match operand {
        Operand::Register(register) => Some(value_of(node, register)),
        Operand::AtHl => {
            let address = pointed_by(node, Pointer::Hl)?;
            if is_ram(address) {
                Some(cell_at(address, node.state.cells()))
            } else {
                None
            }
        }
    }
}

/// Whether a node knows A, and an operand may be above it and may not.
fn is_open(node: &RunNode, operand: Operand) -> bool {
    let number = value_of(node, Register::A).lo;
    is_known(node, Register::A)
        && operand_at(node, operand).is_some_and(|val| val.lo <= number && number < val.hi)
}

/// The comparisons that lead to a spot, in its procedure, and whose two sides aren't told apart yet. A byte of RAM is told apart by the
/// rules of version 4.
pub fn compare_before(
    alloc: Global,
    run: &Run<'_>,
    ways: &Ways,
    spot: Spot,
) -> Result<Option<Plan>, AllocError> {
    let mut plan = Plan::new(alloc);
    for point in ways.leading_to(spot.point)?.iter() {
        let at = Spot {
            point: *point,
            ..spot
        };
        let place = place_of(run, at);
        if let Some(operand) = compared_at(run, ways, at)
            && (operand != Operand::AtHl || run.configuration.edition.is_fourth())
            && !run.configuration.compared.contains_key(&place)
            && run.nodes_at(at).iter().any(|number| run
                .nodes
                .get(*number)
                .is_some_and(|node| is_open(node, operand)))
        {
            plan.add(Edit::Compare(place, operand))?;
        }
    }
    Ok(unless_empty(run, plan))
}
