//! Arithmetic of bytes, with its flags.

ghost use Rattle.std.specs.Prelude.{◌≡◌, ◌<◌, ◌≤◌, ◌^◌};
ghost use Rattle.gb_ops.specs.Arithmetic as Arithmetic;

use gb_ops::machine::Computed;
use gb_ops::op::{AluOp, Shift};
use gb_ops::registers::Flags;

/// ADD, and ADC with a carry.
#[tactic(auto, unfolding(gb_ops::specs::Arithmetic::added))]
pub fn added(a: u8, value: u8, carry: u8) -> Computed
    requires { carry ≤ 1 }
    ensures { result ≡ Arithmetic.added a value carry }
{
    let sum = u16::from(a) + u16::from(value) + u16::from(carry);
    let result = (sum % 256) as u8;
    Computed {
        value: result,
        flags: Flags {
            zero: result == 0,
            subtract: false,
            half_carry: a % 16 + value % 16 + carry > 15,
            carry: sum > 255,
        },
    }
}

/// SUB, and SBC with a borrow.
#[tactic(auto, unfolding(gb_ops::specs::Arithmetic::subtracted))]
pub fn subtracted(a: u8, value: u8, borrow: u8) -> Computed
    requires { borrow ≤ 1 }
    ensures { result ≡ Arithmetic.subtracted a value borrow }
{
    let taken = u16::from(value) + u16::from(borrow);
    let result = ((u16::from(a) + 256 - taken) % 256) as u8;
    Computed {
        value: result,
        flags: Flags {
            zero: result == 0,
            subtract: true,
            half_carry: a % 16 < value % 16 + borrow,
            carry: u16::from(a) < taken,
        },
    }
}

/// AND, XOR and OR, the byte given.
#[tactic(auto, unfolding(gb_ops::specs::Arithmetic::logical))]
pub fn logical(value: u8, half_carry: bool) -> Computed
    ensures { result ≡ Arithmetic.logical value half_carry }
{
    Computed {
        value,
        flags: Flags {
            zero: value == 0,
            subtract: false,
            half_carry,
            carry: false,
        },
    }
}

/// An operation of A with a byte; CP leaves A.
#[inline(always)]
#[tactic(auto, unfolding(gb_ops::specs::Arithmetic::alu_result, gb_ops::specs::Flags::bit_of))]
pub fn alu_result(how: AluOp, a: u8, value: u8, flags: Flags) -> Computed
    ensures { result ≡ Arithmetic.alu_result how a value flags }
{
    let carry = if flags.carry { 1 } else { 0 };
    match how {
        AluOp::Add => added(a, value, 0),
        AluOp::Adc => added(a, value, carry),
        AluOp::Sub => subtracted(a, value, 0),
        AluOp::Sbc => subtracted(a, value, carry),
        AluOp::And => logical(a & value, true),
        AluOp::Xor => logical(a ^ value, false),
        AluOp::Or => logical(a | value, false),
        AluOp::Cp => Computed {
            value: a,
            flags: subtracted(a, value, 0).flags,
        },
    }
}

/// INC of a byte; it leaves the carry.
#[tactic(auto, unfolding(gb_ops::specs::Arithmetic::incremented))]
pub fn incremented(value: u8, flags: Flags) -> Computed
    ensures { result ≡ Arithmetic.incremented value flags }
{
    let result = value.wrapping_add(1);
    Computed {
        value: result,
        flags: Flags {
            zero: result == 0,
            subtract: false,
            half_carry: result % 16 == 0,
            carry: flags.carry,
        },
    }
}

/// DEC of a byte; it leaves the carry.
#[tactic(auto, unfolding(gb_ops::specs::Arithmetic::decremented))]
pub fn decremented(value: u8, flags: Flags) -> Computed
    ensures { result ≡ Arithmetic.decremented value flags }
{
    let result = value.wrapping_sub(1);
    Computed {
        value: result,
        flags: Flags {
            zero: result == 0,
            subtract: true,
            half_carry: result % 16 == 15,
            carry: flags.carry,
        },
    }
}

/// The byte that a rotation or shift makes.
#[tactic(auto, unfolding(gb_ops::specs::Arithmetic::shifted_value, gb_ops::specs::Flags::bit_of))]
pub fn shifted_value(how: Shift, value: u8, carry: bool) -> u8
    ensures { result ≡ Arithmetic.shifted_value how value carry }
{
    let doubled = value % 128 * 2;
    match how {
        Shift::Rlc => doubled + value / 128,
        Shift::Rrc => value / 2 + value % 2 * 128,
        Shift::Rl => doubled + if carry { 1 } else { 0 },
        Shift::Rr => value / 2 + if carry { 128 } else { 0 },
        Shift::Sla => doubled,
        Shift::Sra => value / 2 + value / 128 * 128,
        Shift::Swap => value / 16 + value % 16 * 16,
        Shift::Srl => value / 2,
    }
}

/// The bit that a rotation or shift moves out.
#[tactic(auto, unfolding(gb_ops::specs::Arithmetic::shifted_out))]
pub fn shifted_out(how: Shift, value: u8) -> bool
    ensures { result ≡ Arithmetic.shifted_out how value }
{
    match how {
        Shift::Rlc | Shift::Rl | Shift::Sla => value >= 128,
        Shift::Swap => false,
        Shift::Rrc | Shift::Rr | Shift::Sra | Shift::Srl => value % 2 == 1,
    }
}

/// A rotation or shift of a byte.
#[inline(always)]
#[tactic(auto, unfolding(gb_ops::specs::Arithmetic::shifted))]
pub fn shifted(how: Shift, value: u8, carry: bool) -> Computed
    ensures { result ≡ Arithmetic.shifted how value carry }
{
    let result = shifted_value(how, value, carry);
    Computed {
        value: result,
        flags: Flags {
            zero: result == 0,
            subtract: false,
            half_carry: false,
            carry: shifted_out(how, value),
        },
    }
}

/// An address plus a signed byte.
#[tactic(auto, unfolding(gb_ops::specs::Arithmetic::displaced))]
pub fn displaced(from: u16, e8: u8) -> u16
    ensures { result ≡ Arithmetic.displaced from e8 }
{
    if e8 < 128 {
        from.wrapping_add(u16::from(e8))
    } else {
        from.wrapping_add(u16::from(e8) + 65280)
    }
}

/// The byte with one bit.
#[tactic(auto, using(std::proofs::lemmas::Nat::one_shl), unfolding(gb_ops::specs::Arithmetic::mask_of))]
fn mask(n: u8) -> u8
    ensures { result ≡ Arithmetic.mask_of n }
{
    1 << (n % 8)
}

/// The flags that BIT leaves.
#[tactic(auto, unfolding(gb_ops::specs::Arithmetic::bit_tested))]
pub fn bit_tested(n: u8, value: u8, flags: Flags) -> Flags
    ensures { result ≡ Arithmetic.bit_tested n value flags }
{
    Flags {
        zero: value & mask(n) == 0,
        subtract: false,
        half_carry: true,
        carry: flags.carry,
    }
}

/// RES.
#[tactic(auto, unfolding(gb_ops::specs::Arithmetic::bit_reset))]
pub fn bit_reset(n: u8, value: u8) -> u8
    ensures { result ≡ Arithmetic.bit_reset n value }
{
    value & !mask(n)
}

/// SET.
#[tactic(auto, unfolding(gb_ops::specs::Arithmetic::bit_set))]
pub fn bit_set(n: u8, value: u8) -> u8
    ensures { result ≡ Arithmetic.bit_set n value }
{
    value | mask(n)
}

/// What DAA takes off or adds.
#[tactic(auto, unfolding(gb_ops::specs::Arithmetic::adjustment, gb_ops::specs::Flags::bit_of))]
fn adjustment(low: bool, high: bool) -> u8
    ensures value { result ≡ Arithmetic.adjustment low high }
    ensures small { result ≤ 102 }
{
    let digit = if low { 0x06 } else { 0 };
    let other = if high { 0x60 } else { 0 };
    digit + other
}

/// DAA.
#[tactic(auto, unfolding(gb_ops::specs::Arithmetic::adjusted))]
pub fn adjusted(a: u8, flags: Flags) -> Computed
    ensures { result ≡ Arithmetic.adjusted a flags }
{
    let low = flags.half_carry || (!flags.subtract && a % 16 > 9);
    let high = flags.carry || (!flags.subtract && a > 0x99);
    let by = u16::from(adjustment(low, high));
    let sum = if flags.subtract {
        u16::from(a) + 256 - by
    } else {
        u16::from(a) + by
    };
    let value = (sum % 256) as u8;
    Computed {
        value,
        flags: Flags {
            zero: value == 0,
            subtract: flags.subtract,
            half_carry: false,
            carry: high,
        },
    }
}

/// The flags that ADD HL leaves.
#[tactic(auto, unfolding(gb_ops::specs::Arithmetic::word_sum_flags))]
pub fn word_sum_flags(x: u16, y: u16, flags: Flags) -> Flags
    ensures { result ≡ Arithmetic.word_sum_flags x y flags }
{
    Flags {
        zero: flags.zero,
        subtract: false,
        half_carry: x % 4096 + y % 4096 > 4095,
        carry: u32::from(x) + u32::from(y) > 65535,
    }
}

/// The flags of SP plus a signed byte.
#[tactic(auto, unfolding(gb_ops::specs::Arithmetic::sp_sum_flags))]
pub fn sp_sum_flags(sp: u16, e8: u8) -> Flags
    ensures { result ≡ Arithmetic.sp_sum_flags sp e8 }
{
    let byte = u16::from(e8);
    Flags {
        zero: false,
        subtract: false,
        half_carry: sp % 16 + byte % 16 > 15,
        carry: sp % 256 + byte > 255,
    }
}
