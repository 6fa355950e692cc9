//! The low bits of the address that an instruction stores at by a pointer.

ghost use Rattle.std.specs.Prelude.{◌≡◌};
ghost use Rattle.gb_relations.specs.PointedBits as PointedBits;
ghost use Rattle.gb_relations.specs.PointedBits.{AreSoundBits};

use gb_domain::LowBits;
use gb_domain::interval::low_bits_of;
use gb_domain::low_bits::{are_congruent, none};
use gb_domain::types::{Rules, Val};
use gb_domain::values::interval_of;
use gb_ops::op::{Op, Pointer};
use gb_ops::registers::Registers;

/// What is known of the low bits of an address that goes by a pointer: those of its low byte.
pub fn pointed_bits(pointer: Option<Pointer>, registers: &Registers<Val>) -> LowBits
    ensures { result ≡ PointedBits.pointed_bits pointer registers.now }
{
    match pointer {
        None => none(),
        Some(pointer) => low_bits_of(interval_of(registers.get(pointer.low()))),
    }
}

#[inline(always)]
#[tactic(auto, unfolding(crate::specs::PointedBits::known_bits))]
fn bits_by(rules: Rules, is_whole: bool, op: Op, registers: &Registers<Val>) -> Option<LowBits>
    ensures { result ≡ PointedBits.known_bits rules is_whole op registers.now }
{
    match rules {
        Rules::Simple => None,
        Rules::Extended => {
            if is_whole {
                Some(pointed_bits(op.pointer(), registers))
            } else {
                None
            }
        }
    }
}

/// What is known of the low bits of the address of an instruction's byte, as registers are before it. None where the rules, of
/// versions 1 to 3, don't ask.
#[inline(always)]
#[tactic(auto, using(crate::proofs::PointedBitsLaws::known_bits_sound))]
pub fn known_bits(
    rules: Rules,
    is_whole: bool,
    op: Op,
    registers: &Registers<Val>,
) -> Option<LowBits>
    ensures exact { result ≡ PointedBits.known_bits rules is_whole op registers.now }
    ensures sound { AreSoundBits op registers.now result }
{
    bits_by(rules, is_whole, op, registers)
}

/// Whether an address may be the one, as far as its low bits say.
pub(crate) fn may_be_at(bits: Option<LowBits>, address: u16) -> bool
    ensures { result ≡ PointedBits.may_be_at bits address }
{
    match bits {
        None => true,
        Some(known) => are_congruent(known.count, address, known.bits.into()),
    }
}
