//! Low bits of sums and differences. Carries go upwards, so the low bits of a sum depend on low bits alone.

ghost use Rattle.std.specs.Prelude.{◌≡◌};
ghost use Rattle.gb_vals.specs.LowSums as LowSums;
ghost use Rattle.gb_vals.specs.Congruence.{IsSound, IsSoundOfSum, IsSoundOfHigh, added, subtracted, next_byte, previous_byte, next_word, previous_word};

use gb_domain::low_bits::{LowBits, low_bits, none};

/// ADD, with a carry known to be clear, and ADC. A carry that isn't known leaves nothing.
#[tactic(auto, using(crate::proofs::LowSumLaws::sum_sound), unfolding(crate::specs::LowSums::sum))]
pub fn sum(left: LowBits, right: LowBits, carry: Option<bool>) -> LowBits
    ensures exact { result ≡ LowSums.sum left right carry }
    ensures sound { IsSoundOfSum added left right carry result }
{
    let Some(carry) = carry else {
        return none();
    };
    let bits = u16::from(left.bits) + u16::from(right.bits) + u16::from(carry);
    low_bits(left.count.min(right.count), bits)
}

/// SUB, with a borrow known to be clear, and SBC. A borrow that isn't known leaves nothing.
#[tactic(auto, using(crate::proofs::LowSumLaws::difference_sound), unfolding(crate::specs::LowSums::difference))]
pub fn difference(left: LowBits, right: LowBits, borrow: Option<bool>) -> LowBits
    ensures exact { result ≡ LowSums.difference left right borrow }
    ensures sound { IsSoundOfSum subtracted left right borrow result }
{
    let Some(borrow) = borrow else {
        return none();
    };
    let bits = u16::from(left.bits) + 256 - (u16::from(right.bits) + u16::from(borrow));
    low_bits(left.count.min(right.count), bits)
}

/// INC, and the low byte of INC of a pair.
#[tactic(auto, using(crate::proofs::LowSumLaws::incremented_sound), unfolding(crate::specs::LowSums::incremented))]
pub fn incremented(known: LowBits) -> LowBits
    ensures exact { result ≡ LowSums.incremented known }
    ensures sound { IsSound next_byte known result }
{
    low_bits(known.count, u16::from(known.bits) + 1)
}

/// DEC, and the low byte of DEC of a pair.
#[tactic(auto, using(crate::proofs::LowSumLaws::decremented_sound), unfolding(crate::specs::LowSums::decremented))]
pub fn decremented(known: LowBits) -> LowBits
    ensures exact { result ≡ LowSums.decremented known }
    ensures sound { IsSound previous_byte known result }
{
    low_bits(known.count, u16::from(known.bits) + 255)
}

fn if_kept(is_kept: bool, known: LowBits) -> LowBits
    ensures { result ≡ LowSums.if_kept is_kept known }
{
    if is_kept { known } else { none() }
}

/// INC of a pair: the high byte stays where the greatest low byte doesn't carry into it.
#[tactic(auto, using(crate::proofs::LowSumLaws::high_incremented_sound), unfolding(crate::specs::LowSums::high_incremented))]
pub fn high_incremented(high: LowBits, greatest_low: u8) -> LowBits
    ensures exact { result ≡ LowSums.high_incremented high greatest_low }
    ensures sound { IsSoundOfHigh next_word 0 greatest_low high result }
{
    if_kept(greatest_low < 255, high)
}

/// DEC of a pair: the high byte stays where the least low byte doesn't borrow from it.
#[tactic(auto, using(crate::proofs::LowSumLaws::high_decremented_sound), unfolding(crate::specs::LowSums::high_decremented))]
pub fn high_decremented(high: LowBits, least_low: u8) -> LowBits
    ensures exact { result ≡ LowSums.high_decremented high least_low }
    ensures sound { IsSoundOfHigh previous_word least_low 255 high result }
{
    if_kept(0 < least_low, high)
}
