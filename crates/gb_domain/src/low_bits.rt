//! Low bits that are known.

ghost use Rattle.std.specs.Prelude.{◌≡◌, ◌<◌, ◌≤◌, true};
ghost use Rattle.std.specs.Int.{bit_at};
ghost use Rattle.gb_domain.specs.LowBits as Known;
ghost use Rattle.gb_domain.specs.Meaning.{Has, IsPartOf};

/// What is known of the low bits of a byte: of as many as `count` says, eight at most, it has those of `bits`.
#[derive(Clone, Copy, PartialEq, Eq)]
pub struct LowBits {
    pub count: u8,
    pub bits: u8,
}

/// 2 to the number of low bits.
#[tactic(auto, using(crate::proofs::ModulusLaws::modulus_positive, crate::proofs::ModulusLaws::modulus_bound), unfolding(crate::specs::LowBits::modulus))]
pub(crate) fn modulus(count: u8) -> u16
    ensures exact { result ≡ Known.modulus count }
    ensures positive { 0 < result }
    ensures bound { result ≤ 256 }
{
    1 << count.min(8)
}

/// The low bits of a value, as many as `count` says, eight at most.
#[tactic(auto, unfolding(crate::specs::LowBits::low_bits))]
pub fn low_bits(count: u8, value: u16) -> LowBits
    ensures { result ≡ Known.low_bits count value }
{
    LowBits {
        count: count.min(8),
        bits: (value % modulus(count)) as u8,
    }
}

/// Nothing is known.
pub fn none() -> LowBits
    ensures { result ≡ Known.no_low_bits }
{
    LowBits { count: 0, bits: 0 }
}

/// Of a known byte everything is.
#[tactic(auto, using(crate::proofs::LowBitsLaws::all_of_sound), unfolding(crate::specs::LowBits::all_of))]
pub fn all_of(value: u8) -> LowBits
    ensures exact { result ≡ Known.all_of value }
    ensures sound { Has result value }
{
    low_bits(8, value.into())
}

/// No more than `count` of them.
#[tactic(auto, using(crate::proofs::LowBitsLaws::fewer_sound), unfolding(crate::specs::LowBits::fewer))]
pub fn fewer(count: u8, known: LowBits) -> LowBits
    ensures exact { result ≡ Known.fewer count known }
    ensures sound { IsPartOf known result }
{
    low_bits(count.min(known.count), known.bits.into())
}

/// A bit of a byte.
pub fn bit_at(value: u8, bit: u8) -> u8
    requires { bit < 8 }
    ensures { result ≡ bit_at value bit }
{
    (value >> bit) & 1
}

#[tactic(auto, unfolding(crate::specs::LowBits::is_common))]
fn is_common(left: LowBits, right: LowBits, bit: u8) -> bool
    requires { bit < 8 }
    ensures { result ≡ Known.is_common left right bit }
{
    bit < left.count && bit < right.count && bit_at(left.bits, bit) == bit_at(right.bits, bit)
}

#[tactic(auto, using(crate::proofs::PassingLaws::passing_found, crate::proofs::PassingLaws::passing_next, crate::proofs::PassingLaws::passing_none))]
fn count_common(left: LowBits, right: LowBits) -> u8
    ensures { result ≡ Known.count_passing (Known.is_common left right) }
{
    for bit in 0..8 {
        if !is_common(left, right, bit) {
            return bit;
        }
    }
    8
}

/// What two bytes both have, from bit 0 on (the join).
#[tactic(auto, using(crate::proofs::LowBitsLaws::common_first, crate::proofs::LowBitsLaws::common_second), unfolding(crate::specs::LowBits::common))]
pub fn common(left: LowBits, right: LowBits) -> LowBits
    ensures exact { result ≡ Known.common left right }
    ensures first { IsPartOf left result }
    ensures second { IsPartOf right result }
{
    low_bits(count_common(left, right), left.bits.into())
}

/// Whether as many low bits of two values are the same, eight at most.
#[tactic(auto, unfolding(crate::specs::LowBits::are_congruent))]
pub fn are_congruent(count: u8, left: u16, right: u16) -> bool
    ensures { result ≡ Known.are_congruent count left right }
{
    let modulus = modulus(count);
    left % modulus == right % modulus
}

#[tactic(auto, unfolding(crate::specs::LowBits::covers))]
fn is_implied(left: LowBits, right: LowBits) -> bool
    ensures { result ≡ Known.covers left right }
{
    right.count <= left.count && are_congruent(right.count, left.bits.into(), right.bits.into())
}

/// Whether all that the second one says the first one says too.
#[tactic(auto, using(crate::proofs::LowBitsLaws::covers_sound))]
pub fn covers(left: LowBits, right: LowBits) -> bool
    ensures exact { result ≡ Known.covers left right }
    ensures sound { result ≡ true → IsPartOf left right }
{
    is_implied(left, right)
}
