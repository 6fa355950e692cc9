//! The flags, as bits and as conditions.

ghost use Rattle.std.specs.Prelude.{◌≡◌, ◌≤◌};
ghost use Rattle.gb_ops.specs.Flags as Byte;

use gb_ops::op::Condition;
use gb_ops::registers::Flags;

/// A flag's weight where it is set, else 0.
#[tactic(auto, unfolding(gb_ops::specs::Flags::bit_of))]
pub fn bit_of(flag: bool, weight: u8) -> u8
    ensures { result ≡ Byte.bit_of flag weight }
{
    if flag { weight } else { 0 }
}

/// F as a byte.
#[tactic(auto, unfolding(gb_ops::specs::Flags::flags_byte, gb_ops::specs::Flags::bit_of))]
pub fn flags_byte(flags: Flags) -> u8
    ensures { result ≡ Byte.flags_byte flags }
{
    let zero = if flags.zero { 128 } else { 0 };
    let subtract = if flags.subtract { 64 } else { 0 };
    let half_carry = if flags.half_carry { 32 } else { 0 };
    let carry = if flags.carry { 16 } else { 0 };
    zero + subtract + half_carry + carry
}

/// The flags of a byte; its low four bits are dropped.
#[tactic(auto, unfolding(gb_ops::specs::Flags::flags_of))]
pub fn flags_of(byte: u8) -> Flags
    ensures { result ≡ Byte.flags_of byte }
{
    Flags {
        zero: byte / 128 % 2 == 1,
        subtract: byte / 64 % 2 == 1,
        half_carry: byte / 32 % 2 == 1,
        carry: byte / 16 % 2 == 1,
    }
}

/// Whether a condition is met.
#[tactic(auto, unfolding(gb_ops::specs::Flags::is_met))]
pub fn is_met(condition: Condition, flags: Flags) -> bool
    ensures { result ≡ Byte.is_met condition flags }
{
    match condition {
        Condition::NotZero => !flags.zero,
        Condition::Zero => flags.zero,
        Condition::NotCarry => !flags.carry,
        Condition::Carry => flags.carry,
    }
}
