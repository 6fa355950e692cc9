//! Which bytes and flags a state's values stand for.

use gb_domain::{Flg, May, Origin, Val};
use gb_ops::op::Register;
use gb_ops::registers::{Flags, Processor, Registers};

pub const REGISTERS: [Register; 7] = [
    Register::A,
    Register::B,
    Register::C,
    Register::D,
    Register::E,
    Register::H,
    Register::L,
];

/// Whether a byte is one of an interval's values.
pub fn is_value(byte: u8, (lo, hi): (u8, u8), low_bits: u8) -> bool {
    let apart = 1u16.checked_shl(u32::from(low_bits)).unwrap_or(1).max(1);
    lo <= byte && byte <= hi && u16::from(byte.wrapping_sub(lo)) % apart == 0
}

/// F as a byte.
fn byte_of(flags: Flags) -> u8 {
    u8::from(flags.zero) << 7
        | u8::from(flags.subtract) << 6
        | u8::from(flags.half_carry) << 5
        | u8::from(flags.carry) << 4
}

/// What is known of how a procedure was entered.
#[derive(Clone, Copy)]
pub struct Entered {
    /// The processor, of main.
    pub processor: Option<Processor>,
    /// The address of its mark, where its base is known.
    pub mark: Option<u16>,
}

/// What an origin held as main was entered. Main has no return word, and keeps no bytes.
fn held_at(start: &Processor, origin: Origin) -> Option<u8> {
    let registers = start.registers;
    match origin {
        Origin::A => Some(registers.a),
        Origin::F => Some(byte_of(start.flags)),
        Origin::B => Some(registers.b),
        Origin::C => Some(registers.c),
        Origin::D => Some(registers.d),
        Origin::E => Some(registers.e),
        Origin::H => Some(registers.h),
        Origin::L => Some(registers.l),
        Origin::Ie => Some(0),
        Origin::ReturnHigh
        | Origin::ReturnLow
        | Origin::Kept(_)
        | Origin::MarkHigh
        | Origin::MarkLow => None,
    }
}

/// What an origin is in a procedure, where that is known.
fn held_in(entered: Entered, origin: Origin) -> Option<u8> {
    match origin {
        Origin::MarkHigh => Some((entered.mark? / 256) as u8),
        Origin::MarkLow => Some((entered.mark? % 256) as u8),
        _ => held_at(&entered.processor?, origin),
    }
}

/// Whether a byte is what its origin is in the procedure; so it is taken to be where that isn't known.
fn is_copy(byte: u8, origin: Option<Origin>, entered: Entered) -> bool {
    match origin {
        Some(origin) => held_in(entered, origin).unwrap_or(byte) == byte,
        None => true,
    }
}

/// Whether a value stands for a byte, in a procedure that was entered so.
pub fn is_in(byte: u8, val: &Val, entered: Entered) -> bool {
    is_value(byte, (val.lo, val.hi), val.low_bits) && is_copy(byte, val.origin, entered)
}

pub fn are_in(registers: &Registers<u8>, vals: &Registers<Val>, entered: Entered) -> bool {
    for register in REGISTERS {
        if !is_in(registers.get(register), &vals.get(register), entered) {
            return false;
        }
    }
    true
}

/// Whether a bit may be so.
pub fn may_be(bit: bool, may: May) -> bool {
    if bit { may.set } else { may.clear }
}

pub fn may_flags_be(flags: &Flags, claimed: &Flg, entered: Entered) -> bool {
    let is_own = match entered.processor {
        Some(start) => start.flags == *flags,
        None => true,
    };
    may_be(flags.zero, claimed.zero)
        && may_be(flags.subtract, claimed.subtract)
        && may_be(flags.half_carry, claimed.half_carry)
        && may_be(flags.carry, claimed.carry)
        && (is_own || !claimed.is_own)
}

/// Whether a value leaves some byte out.
pub fn is_known(val: &Val) -> bool {
    val.lo > 0 || val.hi < 0xFF || val.low_bits > 0
}
