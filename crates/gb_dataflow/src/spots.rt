//! What a run knows of the registers at a spot, over all nodes there.

use crate::sources;
use gb_fixpoint::Val;
use gb_fixpoint::configuration::TargetPlace;
use gb_fixpoint::gb_ops::decode::decode;
use gb_fixpoint::gb_ops::op::{Op, Pointer, Register};
use gb_fixpoint::register_set::{REGISTERS, RegisterSet};
use gb_fixpoint::types::{Run, RunNode, Spot};

/// The first address of the switched bank.
pub const SWITCHED: u16 = 0x4000;

/// The value of a register at a node.
pub fn value_of(node: &RunNode, register: Register) -> Val {
    node.state.core().registers.get(register)
}

/// Whether a register has one value alone at a node.
pub fn is_known(node: &RunNode, register: Register) -> bool {
    let val = value_of(node, register);
    val.lo == val.hi
}

/// How many values there are in an interval.
fn size_of_val(val: Val) -> u32 {
    u32::from(val.hi).saturating_sub(u32::from(val.lo)) + 1
}

/// The place of a spot.
pub fn place_of(run: &Run<'_>, spot: Spot) -> TargetPlace {
    TargetPlace {
        target: run.target(spot.procedure),
        point: spot.point,
    }
}

/// The instruction at a spot, where it is known.
pub fn op_at(run: &Run<'_>, spot: Spot) -> Option<Op> {
    let bytes = run.bytes_at(spot)?;
    let row = decode(&bytes)?;
    Some(row.op)
}

/// The high byte of the address that a pointer holds at a node.
pub fn high_of(node: &RunNode, pointer: Pointer) -> Val {
    match pointer.high() {
        Some(high) => value_of(node, high),
        None => Val {
            lo: 0xFF,
            hi: 0xFF,
            low_bits: 0,
            origin: None,
        },
    }
}

/// Whether a pointer's high byte is below 80 in each node at a spot: it points into ROM.
pub fn points_to_rom(run: &Run<'_>, spot: Spot, pointer: Pointer) -> bool {
    for number in run.nodes_at(spot) {
        if let Some(node) = run.nodes.get(*number) {
            if high_of(node, pointer).hi >= 0x80 {
                return false;
            }
        }
    }
    true
}

/// The address that a pointer holds at a node, where it is known.
pub fn pointed_by(node: &RunNode, pointer: Pointer) -> Option<u16> {
    let high = high_of(node, pointer);
    let low = value_of(node, pointer.low());
    if high.lo == high.hi && low.lo == low.hi {
        Some(u16::from_be_bytes([high.lo, low.lo]))
    } else {
        None
    }
}

/// The address that a pointer holds at the first node of a spot, where it is known.
pub fn pointed_at(run: &Run<'_>, spot: Spot, pointer: Pointer) -> Option<u16> {
    let number = run.nodes_at(spot).first()?;
    pointed_by(run.nodes.get(*number)?, pointer)
}

/// Whether a procedure begins at a spot.
pub fn has_entry(run: &Run<'_>, spot: Spot) -> bool {
    run.nodes_at(spot).iter().any(|number| match run.nodes.get(*number) {
        Some(node) => node.key.is_entry,
        None => false,
    })
}

/// Whether a register is known in each node at a spot.
fn is_known_at(run: &Run<'_>, spot: Spot, register: Register, with_entry: bool) -> bool {
    for number in run.nodes_at(spot) {
        if let Some(node) = run.nodes.get(*number) {
            if (with_entry || !node.key.is_entry) && !is_known(node, register) {
                return false;
            }
        }
    }
    true
}

/// Those of some registers that aren't known in each node at a spot; the procedure's first node counts only if that is said.
pub fn open_at(run: &Run<'_>, spot: Spot, wanted: &RegisterSet, with_entry: bool) -> RegisterSet {
    let mut open = RegisterSet::empty();
    for register in REGISTERS {
        if wanted.contains(register) && !is_known_at(run, spot, register, with_entry) {
            open.insert(register);
        }
    }
    open
}

/// The most values that a register has in a node at a spot.
pub fn width_at(run: &Run<'_>, spot: Spot, register: Register) -> u32 {
    let mut widest = 0;
    for number in run.nodes_at(spot) {
        if let Some(node) = run.nodes.get(*number) {
            widest = widest.max(size_of_val(value_of(node, register)));
        }
    }
    widest
}

/// The register of two that has fewer values, and the product of both counts.
pub fn narrower(run: &Run<'_>, spot: Spot, registers: &RegisterSet) -> Option<(Register, u32)> {
    let left = sources::first(registers)?;
    let right = sources::first(&sources::without(registers, left))?;
    let left_width = width_at(run, spot, left);
    let right_width = width_at(run, spot, right);
    let all = left_width.saturating_mul(right_width);
    if right_width < left_width {
        Some((right, all))
    } else {
        Some((left, all))
    }
}
