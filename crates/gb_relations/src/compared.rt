//! A comparison of A, which is all that the rules of versions 1 and 2 know of several parts together.

ghost use Rattle.std.specs.Prelude.{◌≡◌};
ghost use Rattle.std.specs.List.{list_any};
ghost use Rattle.gb_ops.specs.declared.op.Register.TheVariants.{A};
ghost use Rattle.gb_domain.specs.Places.{is_same_register};
ghost use Rattle.gb_relations.specs.Written.{list_of};
ghost use Rattle.gb_relations.specs.Compared as Compared;

use crate::written::{Written, writes_flags, written_by};
use gb_copies::places::{byte_at, only_tested};
use gb_domain::places::{OneByte, Place, Test};
use gb_ops::op::{AluOp, Op, Operand, Register};

/// What an instruction compares A with.
#[inline(always)]
#[tactic(auto, unfolding(crate::specs::Compared::comparison_of))]
fn comparison_of(op: Op) -> Option<u8>
    ensures { result ≡ Compared.comparison_of op }
{
    match op {
        Op::AluImmediate(AluOp::Cp, value) => Some(value),
        Op::Alu(AluOp::And | AluOp::Or, Operand::Register(Register::A)) => Some(0),
        _ => None,
    }
}

fn is_a(register: Register) -> bool
    ensures { result ≡ is_same_register A register }
{
    Register::A == register
}

/// Whether A is among the registers.
fn has_a(written: Written) -> bool
    ensures { result ≡ list_any (is_same_register A) (list_of written) }
{
    match written {
        Written::Nothing => false,
        Written::One(q) => is_a(q),
        Written::Two(q, r) => is_a(q) || is_a(r),
        Written::Three(q, r, s) => is_a(q) || (is_a(r) || is_a(s)),
    }
}

/// Whether an instruction writes A; LD A,A does.
#[tactic(auto, unfolding(crate::specs::Compared::writes_a))]
fn writes_a(op: Op) -> bool
    ensures { result ≡ Compared.writes_a op }
{
    match op {
        Op::Load(Operand::Register(Register::A), _) => true,
        _ => has_a(written_by(op)),
    }
}

/// What is said of A alone.
#[tactic(auto, unfolding(crate::specs::Compared::only_of_a))]
pub fn only_of_a(byte: &OneByte) -> OneByte
    ensures { result ≡ Compared.only_of_a byte.now }
{
    if byte.registers.a {
        OneByte {
            test: byte.test,
            ..byte_at(Place::Register(Register::A))
        }
    } else {
        OneByte::default()
    }
}

/// The comparison of A behind an instruction: its own, or the one before it until A or the flags are written.
#[inline(always)]
#[tactic(auto, using(crate::proofs::ComparedLaws::without_a), unfolding(crate::specs::Compared::compared_after))]
pub(crate) fn compared_after(op: Op, byte: &OneByte) -> OneByte
    ensures { result ≡ Compared.compared_after op byte.now }
{
    match comparison_of(op) {
        Some(value) => only_tested(Place::Register(Register::A), Test::Compare(value)),
        None if !byte.registers.a => OneByte::default(),
        None if writes_flags(op) || writes_a(op) => OneByte::default(),
        None => only_of_a(byte),
    }
}
