//! Which registers instructions write.

use crate::register_set::{REGISTERS, RegisterSet};
use gb_verify::gb_ops::op::{AluOp, Indirect, Op, Operand, Pair, Register, StackPair};

/// H and L.
pub fn hl() -> RegisterSet {
    RegisterSet::of(&[Register::H, Register::L])
}

/// The registers of a pair; SP has none.
pub fn halves(pair: Pair) -> RegisterSet {
    match pair {
        Pair::Bc => RegisterSet::of(&[Register::B, Register::C]),
        Pair::De => RegisterSet::of(&[Register::D, Register::E]),
        Pair::Hl => hl(),
        Pair::Sp => RegisterSet::empty(),
    }
}

/// The registers of a pair that is pushed or popped, the high one first; of AF it is A alone.
pub fn stacked(pair: StackPair) -> [Option<Register>; 2] {
    match pair {
        StackPair::Bc => [Some(Register::B), Some(Register::C)],
        StackPair::De => [Some(Register::D), Some(Register::E)],
        StackPair::Hl => [Some(Register::H), Some(Register::L)],
        StackPair::Af => [Some(Register::A), None],
    }
}

/// The register of an operand.
pub fn register_in(operand: Operand) -> RegisterSet {
    match operand {
        Operand::Register(register) => RegisterSet::of(&[register]),
        Operand::AtHl => RegisterSet::empty(),
    }
}

/// The registers that a load or a store of A by a pair counts.
pub fn counted_by(at: Indirect) -> RegisterSet {
    match at {
        Indirect::Bc | Indirect::De => RegisterSet::empty(),
        Indirect::HlIncrement | Indirect::HlDecrement => hl(),
    }
}

/// The registers that POP changes.
fn popped(pair: StackPair) -> RegisterSet {
    let mut registers = RegisterSet::empty();
    for register in stacked(pair).iter().flatten() {
        registers.insert(*register);
    }
    registers
}

/// The registers that an instruction may change; of a call all of them.
pub fn written(op: Op) -> RegisterSet {
    let a = RegisterSet::of(&[Register::A]);
    match op {
        Op::LoadPair(pair, _) | Op::IncrementPair(pair) | Op::DecrementPair(pair) => halves(pair),
        Op::StoreA(at) => counted_by(at),
        Op::LoadA(at) => a.union(&counted_by(at)),
        Op::Increment(operand)
        | Op::Decrement(operand)
        | Op::LoadImmediate(operand, _)
        | Op::Load(operand, _)
        | Op::Shift(_, operand)
        | Op::Reset(_, operand)
        | Op::Set(_, operand) => register_in(operand),
        Op::Alu(AluOp::Cp, _) | Op::AluImmediate(AluOp::Cp, _) => RegisterSet::empty(),
        Op::RotateA(_)
        | Op::DecimalAdjust
        | Op::Complement
        | Op::Alu(..)
        | Op::AluImmediate(..)
        | Op::LoadHigh(_)
        | Op::LoadHighC
        | Op::LoadAbsolute(_) => a,
        Op::AddHl(_) | Op::LoadHlSp(_) => hl(),
        Op::Pop(pair) => popped(pair),
        Op::Call(_) | Op::CallIf(..) | Op::Restart(_) => RegisterSet::of(&REGISTERS),
        _ => RegisterSet::empty(),
    }
}
