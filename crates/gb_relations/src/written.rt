//! Which registers an instruction writes, and whether it writes the flags.

ghost use Rattle.std.specs.Prelude.{◌≡◌, ◌∷◌};
ghost use Rattle.gb_ops.specs.declared.op.Register.TheVariants as register;
ghost use Rattle.gb_pairs.specs.Written as Pairs;
ghost use Rattle.gb_relations.specs.Written as Writes;

use gb_domain::places::is_same_register;
use gb_ops::op::{AluOp, Indirect, Op, Operand, Pair, Register, StackPair};

/// The registers that an instruction writes.
#[derive(Clone, Copy)]
pub enum Written {
    Nothing,
    One(Register),
    Two(Register, Register),
    Three(Register, Register, Register),
}

fn halves(pair: Pair) -> Written
    ensures { Writes.list_of result ≡ Writes.halves pair }
{
    match pair {
        Pair::Bc => Written::Two(Register::B, Register::C),
        Pair::De => Written::Two(Register::D, Register::E),
        Pair::Hl => Written::Two(Register::H, Register::L),
        Pair::Sp => Written::Nothing,
    }
}

fn stack_halves(pair: StackPair) -> Written
    ensures { Writes.list_of result ≡ Writes.stack_halves pair }
{
    match pair {
        StackPair::Bc => Written::Two(Register::B, Register::C),
        StackPair::De => Written::Two(Register::D, Register::E),
        StackPair::Hl => Written::Two(Register::H, Register::L),
        StackPair::Af => Written::One(Register::A),
    }
}

/// HL, where the operand counts it.
pub fn counted(indirect: Indirect) -> Written
    ensures { Writes.list_of result ≡ Writes.counted indirect }
{
    match indirect {
        Indirect::HlIncrement | Indirect::HlDecrement => Written::Two(Register::H, Register::L),
        _ => Written::Nothing,
    }
}

fn loaded(from: Indirect) -> Written
    ensures { Writes.list_of result ≡ register.A ∷ Writes.counted from }
{
    match from {
        Indirect::HlIncrement | Indirect::HlDecrement => Written::Three(
            Register::A,
            Register::H,
            Register::L,
        ),
        _ => Written::One(Register::A),
    }
}

fn operand_register(operand: Operand) -> Written
    ensures { Writes.list_of result ≡ Writes.operand_register operand }
{
    match operand {
        Operand::Register(register) => Written::One(register),
        Operand::AtHl => Written::Nothing,
    }
}

/// A register's load from itself writes nothing.
fn moved_register(to: Operand, from: Operand) -> Written
    ensures { Writes.list_of result ≡ Writes.moved_register to from }
{
    match (to, from) {
        (Operand::Register(to), Operand::Register(from)) if is_same_register(to, from) =>
            Written::Nothing,
        _ => operand_register(to),
    }
}

/// CP leaves A.
fn alu_register(how: AluOp) -> Written
    ensures { Writes.list_of result ≡ Writes.alu_register how }
{
    match how {
        AluOp::Cp => Written::Nothing,
        _ => Written::One(Register::A),
    }
}

/// The registers that an instruction writes.
#[tactic(auto, unfolding(crate::specs::Written::written))]
pub fn written_by(op: Op) -> Written
    ensures { Writes.list_of result ≡ Writes.written op }
{
    match op {
        Op::LoadPair(pair, _) | Op::IncrementPair(pair) | Op::DecrementPair(pair) => halves(pair),
        Op::StoreA(to) => counted(to),
        Op::LoadA(from) => loaded(from),
        Op::Increment(operand)
        | Op::Decrement(operand)
        | Op::LoadImmediate(operand, _)
        | Op::Shift(_, operand)
        | Op::Reset(_, operand)
        | Op::Set(_, operand) => operand_register(operand),
        Op::Load(to, from) => moved_register(to, from),
        Op::Alu(how, _) | Op::AluImmediate(how, _) => alu_register(how),
        Op::Pop(pair) => stack_halves(pair),
        Op::AddHl(_) | Op::LoadHlSp(_) => Written::Two(Register::H, Register::L),
        Op::RotateA(_)
        | Op::DecimalAdjust
        | Op::Complement
        | Op::LoadHigh(_)
        | Op::LoadHighC
        | Op::LoadAbsolute(_) => Written::One(Register::A),
        _ => Written::Nothing,
    }
}

fn is_af(pair: StackPair) -> bool
    ensures { result ≡ Writes.is_af pair }
{
    matches!(pair, StackPair::Af)
}

/// Whether an instruction writes the flags.
#[tactic(auto, unfolding(crate::specs::Written::writes_flags))]
pub(crate) fn writes_flags(op: Op) -> bool
    ensures { result ≡ Writes.writes_flags op }
{
    match op {
        Op::Increment(_)
        | Op::Decrement(_)
        | Op::RotateA(_)
        | Op::AddHl(_)
        | Op::DecimalAdjust
        | Op::Complement
        | Op::SetCarry
        | Op::ComplementCarry
        | Op::Alu(_, _)
        | Op::AluImmediate(_, _)
        | Op::Shift(_, _)
        | Op::Bit(_, _)
        | Op::AddSp(_)
        | Op::LoadHlSp(_) => true,
        Op::Pop(pair) => is_af(pair),
        _ => false,
    }
}
