//! The addresses that the data of an instruction may meet.

ghost use Rattle.std.specs.Prelude.{◌≡◌};
ghost use Rattle.gb_abs_effects.specs.Accesses as Accesses;
ghost use Rattle.gb_domain.specs.Rules.{IsCore};
ghost use Rattle.gb_abs_effects.specs.Sound.{HasBytes, IsReadAt, IsSoundRead};

use gb_abs::single;
use gb_abs::span::Span;
use gb_domain::types::Core;
use gb_ops::op::{Indirect, Op, Operand};

/// What an instruction may read besides its own bytes.
#[derive(Clone, Copy, PartialEq, Eq)]
pub enum AbsRead {
    Nothing,
    /// One byte at one of these addresses.
    Byte(Span),
    /// The word on top of the stack.
    Top,
    /// A word, its low byte at one of these addresses and its high byte behind it.
    Word(Span),
}

/// The addresses that HL may name.
#[tactic(auto, unfolding(crate::specs::Accesses::hl_span))]
pub(crate) fn hl_span(core: &Core) -> Span
    ensures { result ≡ Accesses.hl_span core.now }
{
    Span::of_pair(&core.registers.h, &core.registers.l)
}

/// The addresses that a pair of registers may name as an operand.
#[tactic(auto, unfolding(crate::specs::Accesses::indirect_span))]
pub(crate) fn indirect_span(indirect: Indirect, core: &Core) -> Span
    ensures { result ≡ Accesses.indirect_span indirect core.now }
{
    let registers = core.registers;
    match indirect {
        Indirect::Bc => Span::of_pair(&registers.b, &registers.c),
        Indirect::De => Span::of_pair(&registers.d, &registers.e),
        Indirect::HlIncrement | Indirect::HlDecrement => hl_span(core),
    }
}

/// The addresses from FF00 on that C may name.
#[tactic(auto, unfolding(crate::specs::Accesses::high_span))]
pub(crate) fn high_span(core: &Core) -> Span
    ensures { result ≡ Accesses.high_span core.now }
{
    Span::of_pair(&single(0xFF), &core.registers.c)
}

#[tactic(auto, unfolding(crate::specs::Accesses::operand_read))]
fn operand_read(operand: Operand, core: &Core) -> AbsRead
    ensures { result ≡ Accesses.operand_read operand core.now }
{
    match operand {
        Operand::Register(_) => AbsRead::Nothing,
        Operand::AtHl => AbsRead::Byte(hl_span(core)),
    }
}

/// What an instruction that is taken may read besides its own bytes: addresses that hold the
/// machine's, those of a pair from both least bytes to both greatest.
#[inline(always)]
#[tactic(auto, using(crate::proofs::ReadLaws::read_of_sound, crate::proofs::ReadLaws::read_of_at))]
pub fn read_of(op: Op, core: &Core) -> AbsRead
    ensures exact { result ≡ Accesses.read_of op core.now }
    ensures sound { IsSoundRead op core.now result }
    ensures at { IsCore core.now → IsReadAt result }
{
    data_of(op, core)
}

#[inline(always)]
#[tactic(auto, unfolding(crate::specs::Accesses::read_of))]
fn data_of(op: Op, core: &Core) -> AbsRead
    ensures exact { result ≡ Accesses.read_of op core.now }
    ensures bytes { HasBytes op }
{
    match op {
        Op::LoadA(from) => AbsRead::Byte(indirect_span(from, core)),
        Op::Increment(operand)
        | Op::Decrement(operand)
        | Op::Load(_, operand)
        | Op::Alu(_, operand)
        | Op::Shift(_, operand)
        | Op::Bit(_, operand)
        | Op::Reset(_, operand)
        | Op::Set(_, operand) => operand_read(operand, core),
        Op::ReturnIf(_) | Op::Return | Op::ReturnFromInterrupt | Op::Pop(_) => AbsRead::Top,
        Op::LoadHigh(byte) => AbsRead::Byte(Span::one(0xFF00 + u16::from(byte))),
        Op::LoadHighC => AbsRead::Byte(high_span(core)),
        Op::LoadAbsolute(address) => AbsRead::Byte(Span::one(address)),
        _ => AbsRead::Nothing,
    }
}
