//! Low bits of shifts.

ghost use Rattle.std.specs.Prelude.{◌≡◌};
ghost use Rattle.gb_vals.specs.LowShifts as LowShifts;
ghost use Rattle.gb_vals.specs.Congruence.{IsSound, IsSoundOfDigit, shifted_left, shifted_right, with_digits_swapped};

use gb_domain::low_bits::{LowBits, low_bits};

/// ADD A,A and SLA: one more low bit, which is clear.
#[tactic(auto, using(crate::proofs::LowShiftLaws::doubled_sound), unfolding(crate::specs::LowShifts::doubled))]
pub fn doubled(known: LowBits) -> LowBits
    ensures exact { result ≡ LowShifts.doubled known }
    ensures sound { IsSound shifted_left known result }
{
    low_bits(known.count.min(8) + 1, u16::from(known.bits) * 2)
}

/// SRL: one low bit less.
#[tactic(auto, using(crate::proofs::LowShiftLaws::halved_sound), unfolding(crate::specs::LowShifts::halved))]
pub fn halved(known: LowBits) -> LowBits
    ensures exact { result ≡ LowShifts.halved known }
    ensures sound { IsSound shifted_right known result }
{
    low_bits(
        known.count.min(8).saturating_sub(1),
        (known.bits / 2).into(),
    )
}

/// SWAP of bytes that all have one high digit: it becomes the low one, and the low bits of the low digit follow it.
#[tactic(auto, using(crate::proofs::LowShiftLaws::swapped_sound), unfolding(crate::specs::LowShifts::swapped))]
pub fn swapped(high_digit: u8, known: LowBits) -> LowBits
    ensures exact { result ≡ LowShifts.swapped high_digit known }
    ensures sound { IsSoundOfDigit with_digits_swapped high_digit known result }
{
    let bits = known.bits % 16 * 16 + high_digit % 16;
    low_bits(known.count.min(4) + 4, bits.into())
}
