//! Which registers a register's value comes from.

use gb_fixpoint::gb_ops::op::{AluOp, Indirect, Op, Operand, Pointer, Register, StackPair};
use gb_fixpoint::register_set::{REGISTERS, RegisterSet};
use gb_fixpoint::written::{counted_by, hl};
pub use gb_fixpoint::written::{halves, register_in, stacked, written};

/// A set of registers without one of them.
pub fn without(set: &RegisterSet, register: Register) -> RegisterSet {
    let mut rest = RegisterSet::empty();
    for other in REGISTERS {
        if other != register && set.contains(other) {
            rest.insert(other);
        }
    }
    rest
}

/// How many registers a set has, and the first of them.
pub fn count(set: &RegisterSet) -> usize {
    REGISTERS
        .iter()
        .filter(|register| set.contains(**register))
        .count()
}

/// The first register of a set.
pub fn first(set: &RegisterSet) -> Option<Register> {
    REGISTERS
        .iter()
        .copied()
        .find(|register| set.contains(*register))
}

/// The high registers of pairs among some.
pub fn high_registers(registers: &RegisterSet) -> RegisterSet {
    let mut high = RegisterSet::empty();
    for register in [Register::B, Register::D, Register::H] {
        if registers.contains(register) {
            high.insert(register);
        }
    }
    high
}

/// Whether two sets have a register in common.
pub fn meet(left: &RegisterSet, right: &RegisterSet) -> bool {
    REGISTERS.iter().any(|register| left.contains(*register) && right.contains(*register))
}

/// The set, with all of a group where it has one of the group.
fn together(wanted: &RegisterSet, group: &RegisterSet) -> RegisterSet {
    if meet(wanted, group) {
        wanted.union(group)
    } else {
        *wanted
    }
}

/// The set without the registers of another one.
fn less(wanted: &RegisterSet, gone: &RegisterSet) -> RegisterSet {
    let mut rest = RegisterSet::empty();
    for register in REGISTERS {
        if wanted.contains(register) && !gone.contains(register) {
            rest.insert(register);
        }
    }
    rest
}

/// The set with other registers in place of one, where it has that.
fn replaced(wanted: &RegisterSet, target: Register, sources: &RegisterSet) -> RegisterSet {
    if wanted.contains(target) {
        without(wanted, target).union(sources)
    } else {
        *wanted
    }
}

/// The register that an instruction loads through a pair.
pub fn loaded(op: Op) -> Option<Register> {
    match op {
        Op::LoadA(_) => Some(Register::A),
        Op::Load(Operand::Register(target), Operand::AtHl) => Some(target),
        _ => None,
    }
}

/// The pair through which an instruction loads a wanted register, if it does.
pub fn loaded_by(op: Op, wanted: &RegisterSet) -> Option<Pointer> {
    if wanted.contains(loaded(op)?) {
        op.pointer()
    } else {
        None
    }
}

/// The registers before an instruction of which the wanted ones are copies behind it; a pointer that is counted up or down
/// is its own copy, and so is a byte in which bits are set: that bounds it as little. What else is computed is no copy. None where they
/// come from RAM, from the stack or from a call.
pub fn copied(op: Op, wanted: &RegisterSet) -> Option<RegisterSet> {
    match op {
        Op::AddHl(_) => Some(less(wanted, &hl())),
        Op::IncrementPair(_)
        | Op::DecrementPair(_)
        | Op::StoreA(_)
        | Op::AluImmediate(AluOp::Or, _) => Some(*wanted),
        Op::Alu(..) | Op::AluImmediate(..) | Op::RotateA(_) => Some(without(wanted, Register::A)),
        _ if loaded_by(op, wanted).is_some() => None,
        _ => sources(op, wanted),
    }
}

/// Before an operation of A with an operand.
fn alu_sources(op: AluOp, operand: Operand, wanted: &RegisterSet) -> Option<RegisterSet> {
    if op == AluOp::Cp || !wanted.contains(Register::A) {
        return Some(*wanted);
    }
    match (op, operand) {
        (AluOp::Xor | AluOp::Sub, Operand::Register(Register::A)) => {
            Some(without(wanted, Register::A))
        }
        (_, Operand::Register(source)) => {
            let mut sources = *wanted;
            sources.insert(source);
            Some(sources)
        }
        (_, Operand::AtHl) => None,
    }
}

/// Before a load of A through a pair, which may count that pair.
fn load_sources(op: Op, at: Indirect, wanted: &RegisterSet) -> RegisterSet {
    let wanted = match op.pointer() {
        Some(pointer) => replaced(wanted, Register::A, &RegisterSet::of_pointer(pointer)),
        None => *wanted,
    };
    together(&wanted, &counted_by(at))
}

/// A register that comes from RAM or from a port: then nothing is known of where from.
fn unless_wanted(register: Register, wanted: &RegisterSet) -> Option<RegisterSet> {
    if wanted.contains(register) {
        None
    } else {
        Some(*wanted)
    }
}

/// Before a POP.
fn pop_sources(pair: StackPair, wanted: &RegisterSet) -> Option<RegisterSet> {
    if stacked(pair)
        .iter()
        .flatten()
        .any(|register| wanted.contains(*register))
    {
        None
    } else {
        Some(*wanted)
    }
}

/// The registers before an instruction from which the wanted ones get their values behind it; a table's address is one of
/// them. None where they come from RAM, from the stack or from a call.
pub fn sources(op: Op, wanted: &RegisterSet) -> Option<RegisterSet> {
    match op {
        Op::AddHl(pair) if meet(wanted, &hl()) => Some(wanted.union(&hl()).union(&halves(pair))),
        Op::IncrementPair(pair) | Op::DecrementPair(pair) => {
            Some(together(wanted, &halves(pair)))
        }
        Op::StoreA(Indirect::HlIncrement | Indirect::HlDecrement) => {
            Some(together(wanted, &hl()))
        }
        Op::LoadPair(pair, _) => Some(less(wanted, &halves(pair))),
        Op::LoadImmediate(Operand::Register(target), _) => Some(without(wanted, target)),
        Op::Load(Operand::Register(target), Operand::Register(source)) => {
            Some(replaced(wanted, target, &RegisterSet::of(&[source])))
        }
        Op::Load(Operand::Register(target), Operand::AtHl) => {
            Some(replaced(wanted, target, &hl()))
        }
        Op::Alu(operation, operand) => alu_sources(operation, operand, wanted),
        Op::LoadA(at) => Some(load_sources(op, at, wanted)),
        Op::LoadHigh(_) | Op::LoadAbsolute(_) | Op::LoadHighC => {
            unless_wanted(Register::A, wanted)
        }
        Op::Pop(pair) => pop_sources(pair, wanted),
        Op::LoadHlSp(_) if meet(wanted, &hl()) => None,
        Op::Call(_) | Op::CallIf(..) | Op::Restart(_) => None,
        _ => Some(*wanted),
    }
}
