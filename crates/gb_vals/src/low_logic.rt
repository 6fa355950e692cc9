//! Low bits of bitwise operations: a bit of the result may be known where only one of the operands' is.

ghost use Rattle.std.specs.Prelude.{◌≡◌, ◌<◌, bit_and, bit_or, bit_xor};
ghost use Rattle.gb_vals.specs.LowLogic as LowLogic;
ghost use Rattle.gb_domain.specs.LowBits.{count_passing};
ghost use Rattle.gb_vals.specs.Congruence.{IsSound, IsSoundOfTwo};

use gb_domain::low_bits::{LowBits, all_of, bit_at, low_bits};

#[tactic(auto, unfolding(crate::specs::LowLogic::is_known))]
fn is_known(deciding: Option<bool>, left: LowBits, right: LowBits, bit: u8) -> bool
    requires { bit < 8 }
    ensures { result ≡ LowLogic.is_known deciding left right bit }
{
    bit < left.count && bit < right.count
        || decides(deciding, left, bit)
        || decides(deciding, right, bit)
}

/// Whether a bit that alone decides the result's is known.
fn decides(deciding: Option<bool>, known: LowBits, bit: u8) -> bool
    requires { bit < 8 }
    ensures { result ≡ LowLogic.decides deciding known bit }
{
    match deciding {
        Some(deciding) => bit < known.count && bit_at(known.bits, bit) == u8::from(deciding),
        None => false,
    }
}

/// How many low bits of the result are known, where a bit of one operand may decide it.
#[tactic(auto, using(gb_domain::proofs::PassingLaws::passing_found, gb_domain::proofs::PassingLaws::passing_next, gb_domain::proofs::PassingLaws::passing_none), unfolding(crate::specs::LowLogic::known_bits))]
fn known_bits(deciding: Option<bool>, left: LowBits, right: LowBits) -> u8
    ensures { result ≡ LowLogic.known_bits deciding left right }
{
    for bit in 0..8 {
        if !is_known(deciding, left, right, bit) {
            return bit;
        }
    }
    8
}

/// AND: a known 0 decides.
#[tactic(auto, using(crate::proofs::LowLogicLaws::conjunction_sound), unfolding(crate::specs::LowLogic::conjunction))]
pub fn conjunction(left: LowBits, right: LowBits) -> LowBits
    ensures exact { result ≡ LowLogic.conjunction left right }
    ensures sound { IsSoundOfTwo bit_and left right result }
{
    let count = known_bits(Some(false), left, right);
    low_bits(count, (left.bits & right.bits).into())
}

/// OR: a known 1 decides.
#[tactic(auto, using(crate::proofs::LowLogicLaws::disjunction_sound), unfolding(crate::specs::LowLogic::disjunction))]
pub fn disjunction(left: LowBits, right: LowBits) -> LowBits
    ensures exact { result ≡ LowLogic.disjunction left right }
    ensures sound { IsSoundOfTwo bit_or left right result }
{
    let count = known_bits(Some(true), left, right);
    low_bits(count, (left.bits | right.bits).into())
}

/// XOR: both bits have to be known.
#[tactic(auto, using(crate::proofs::LowLogicLaws::exclusion_sound), unfolding(crate::specs::LowLogic::exclusion))]
pub fn exclusion(left: LowBits, right: LowBits) -> LowBits
    ensures exact { result ≡ LowLogic.exclusion left right }
    ensures sound { IsSoundOfTwo bit_xor left right result }
{
    let count = known_bits(None, left, right);
    low_bits(count, (left.bits ^ right.bits).into())
}

/// CPL: each known bit is turned over.
#[tactic(auto, using(crate::proofs::LowLogicLaws::complement_sound), unfolding(crate::specs::LowLogic::complement))]
pub fn complement(known: LowBits) -> LowBits
    ensures exact { result ≡ LowLogic.complement known }
    ensures sound { IsSound LowLogic.complemented known result }
{
    low_bits(known.count, (255 - known.bits).into())
}

/// The weight of a bit of a byte, its number modulo 8.
#[tactic(auto, unfolding(crate::specs::LowLogic::mask_of))]
fn mask_of(bit: u8) -> u8
    ensures { result ≡ LowLogic.mask_of bit }
{
    1 << (bit % 8)
}

/// RES: AND with all other bits.
#[tactic(auto, using(crate::proofs::LowLogicLaws::reset_bit_sound), unfolding(crate::specs::LowLogic::reset_bit))]
pub fn reset_bit(bit: u8, known: LowBits) -> LowBits
    ensures exact { result ≡ LowLogic.reset_bit bit known }
    ensures sound { IsSound (LowLogic.with_bit_reset bit) known result }
{
    conjunction(known, all_of(255 - mask_of(bit)))
}

/// SET: OR with the bit.
#[tactic(auto, using(crate::proofs::LowLogicLaws::set_bit_sound), unfolding(crate::specs::LowLogic::set_bit))]
pub fn set_bit(bit: u8, known: LowBits) -> LowBits
    ensures exact { result ≡ LowLogic.set_bit bit known }
    ensures sound { IsSound (LowLogic.with_bit_set bit) known result }
{
    disjunction(known, all_of(mask_of(bit)))
}
