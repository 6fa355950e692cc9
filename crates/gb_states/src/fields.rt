//! Reading the fields of a state, one after the other.

ghost use Rattle.std.specs.Prelude.{◌≡◌, ◌+◌, ◌≤◌, ◌&&◌, ◌||◌, nat_le, length};
ghost use Rattle.gb_fields.specs.declared.fault.CertFault.TheVariants.{Field};
ghost use Rattle.gb_fields.specs.Format.{Gives, both, mapped, checked, byte};
ghost use Rattle.gb_fields.specs.Reading.{is_ordered, word_between};
ghost use Rattle.gb_domain.specs.Rules.{has_value};
ghost use Rattle.gb_states.specs.Checked.{val_in, flg_in, kept_in, ctl_in, vals_in, core_in, test_in};
ghost use Rattle.gb_states.specs.WholeReading.{origin_of, to_val};
ghost use Rattle.gb_states.specs.Reading as older;
ghost use Rattle.gb_states.specs.Reading.{passed, to_may, to_ime, origin_at, val_at, may_at, ime_at, test_at, flg_at, ctl_at, vals_at, core_at};

use crate::role::Role;
use gb_domain::types::{Core, Ctl, Flg, ImeSet, KeptBanks, May, Origin, Rules, Val};
use gb_fields::CertFault;
use gb_fields::limits::origin_limit;
use gb_fields::numbers::{byte, byte_between, word_between, yes_no};
use gb_ops::registers::Registers;

/// The origin with this number by versions 1 to 3, 0 for none.
#[inline(always)]
fn older_origin_of(number: u8) -> Option<Origin>
    ensures { result ≡ older.origin_of number }
{
    match number {
        0 => None,
        1 => Some(Origin::A),
        2 => Some(Origin::F),
        3 => Some(Origin::B),
        4 => Some(Origin::C),
        5 => Some(Origin::D),
        6 => Some(Origin::E),
        7 => Some(Origin::H),
        8 => Some(Origin::L),
        9 => Some(Origin::Ie),
        10 => Some(Origin::ReturnHigh),
        _ => Some(Origin::ReturnLow),
    }
}

#[inline(always)]
#[tactic(auto, unfolding(crate::specs::Reading::origin_at))]
fn origin_at(rules: Rules, bytes: &[u8]) -> Result<(Option<Origin>, &[u8]), CertFault>
    ensures { Gives (λ x. (x.0, x.1.now)) result (origin_at rules bytes.now) }
{
    let (number, rest) = byte_between(0, origin_limit(rules), bytes)?;
    Ok((older_origin_of(number), rest))
}

#[inline(always)]
#[tactic(auto, unfolding(crate::specs::Reading::val_at))]
pub fn val_at(rules: Rules, bytes: &[u8]) -> Result<(Val, &[u8]), CertFault>
    ensures { Gives (λ x. (x.0, x.1.now)) result (val_at rules bytes.now) }
{
    let (lo, rest) = byte(bytes)?;
    let (hi, rest) = byte(rest)?;
    if lo > hi {
        return Err(CertFault::Field);
    }
    let (origin, rest) = origin_at(rules, rest)?;
    let val = Val {
        lo,
        hi,
        low_bits: 0,
        origin,
    };
    Ok((val, rest))
}

#[inline(always)]
#[tactic(auto, unfolding(crate::specs::Reading::may_at))]
pub(crate) fn may_at(bytes: &[u8]) -> Result<(May, &[u8]), CertFault>
    ensures { Gives (λ x. (x.0, x.1.now)) result (may_at bytes.now) }
{
    let (bits, rest) = byte_between(1, 3, bytes)?;
    let may = May {
        clear: bits % 2 == 1,
        set: bits / 2 == 1,
    };
    Ok((may, rest))
}

#[inline(always)]
#[tactic(auto, unfolding(crate::specs::Reading::ime_at))]
pub(crate) fn ime_at(bytes: &[u8]) -> Result<(ImeSet, &[u8]), CertFault>
    ensures { Gives (λ x. (x.0, x.1.now)) result (ime_at bytes.now) }
{
    let (bits, rest) = byte_between(1, 7, bytes)?;
    let ime = ImeSet {
        off: bits % 2 == 1,
        pending: bits / 2 % 2 == 1,
        on: bits / 4 == 1,
    };
    Ok((ime, rest))
}

#[inline(always)]
#[tactic(auto, unfolding(crate::specs::Reading::test_at))]
pub(crate) fn test_at(bytes: &[u8]) -> Result<(Option<u8>, &[u8]), CertFault>
    ensures { Gives (λ x. (x.0, x.1.now)) result (test_at bytes.now) }
{
    let (is_there, rest) = yes_no(bytes)?;
    let (value, rest) = byte(rest)?;
    if is_there {
        Ok((Some(value), rest))
    } else if value == 0 {
        Ok((None, rest))
    } else {
        Err(CertFault::Field)
    }
}

#[inline(always)]
fn has_value(may: May) -> bool
    ensures { result ≡ has_value may }
{
    may.clear || may.set
}

#[inline(always)]
#[tactic(auto, unfolding(crate::specs::Reading::flg_at))]
pub(crate) fn flg_at(bytes: &[u8]) -> Result<(Flg, &[u8]), CertFault>
    ensures { Gives (λ x. (x.0, x.1.now)) result (flg_at bytes.now) }
{
    let (bits, rest) = byte(bytes)?;
    let zero = May {
        clear: bits / 8 % 2 == 1,
        set: bits / 128 == 1,
    };
    let subtract = May {
        clear: bits / 4 % 2 == 1,
        set: bits / 64 % 2 == 1,
    };
    let half_carry = May {
        clear: bits / 2 % 2 == 1,
        set: bits / 32 % 2 == 1,
    };
    let carry = May {
        clear: bits % 2 == 1,
        set: bits / 16 % 2 == 1,
    };
    if !(has_value(zero) && has_value(subtract) && has_value(half_carry) && has_value(carry)) {
        return Err(CertFault::Field);
    }
    let (origin, rest) = byte(rest)?;
    if origin != 0 && origin != 2 {
        return Err(CertFault::Field);
    }
    let flags = Flg {
        zero,
        subtract,
        half_carry,
        carry,
        is_own: origin == 2,
    };
    Ok((flags, rest))
}

/// The least and the greatest bank.
#[inline(always)]
pub(crate) fn banks_at(bytes: &[u8]) -> Result<((u16, u16), &[u8]), CertFault>
    ensures { Gives (λ x. (x.0, x.1.now)) result (checked Field is_ordered (both (word_between 0 511) (word_between 0 511)) bytes.now) }
{
    let (lo, rest) = word_between(0, 511, bytes)?;
    let (hi, rest) = word_between(0, 511, rest)?;
    if lo > hi {
        return Err(CertFault::Field);
    }
    Ok(((lo, hi), rest))
}

/// Two bytes in order.
#[inline(always)]
pub(crate) fn ordered_at(bytes: &[u8]) -> Result<((u8, u8), &[u8]), CertFault>
    ensures { Gives (λ x. (x.0, x.1.now)) result (checked Field is_ordered (both byte byte) bytes.now) }
{
    let (lo, rest) = byte(bytes)?;
    let (hi, rest) = byte(rest)?;
    if lo > hi {
        return Err(CertFault::Field);
    }
    Ok(((lo, hi), rest))
}

#[inline(always)]
#[tactic(auto, unfolding(crate::specs::Reading::ctl_at))]
fn ctl_at(bytes: &[u8]) -> Result<(Ctl, &[u8]), CertFault>
    ensures { Gives (λ x. (x.0, x.1.now)) result (ctl_at bytes.now) }
{
    let ((bank_lo, bank_hi), rest) = banks_at(bytes)?;
    let ((second_lo, second_hi), rest) = ordered_at(rest)?;
    let (gate, rest) = may_at(rest)?;
    let (mode, rest) = may_at(rest)?;
    let (is_kept, rest) = yes_no(rest)?;
    let ctl = Ctl {
        bank_lo,
        bank_hi,
        second_lo,
        second_hi,
        gate,
        mode,
        kept: KeptBanks::all_or_none(is_kept),
    };
    Ok((ctl, rest))
}

#[inline(always)]
#[tactic(auto, unfolding(crate::specs::Reading::vals_at))]
fn vals_at(rules: Rules, bytes: &[u8]) -> Result<(Registers<Val>, &[u8]), CertFault>
    ensures { Gives (λ x. (x.0, x.1.now)) result (vals_at rules bytes.now) }
{
    let (a, rest) = val_at(rules, bytes)?;
    let (b, rest) = val_at(rules, rest)?;
    let (c, rest) = val_at(rules, rest)?;
    let (d, rest) = val_at(rules, rest)?;
    let (e, rest) = val_at(rules, rest)?;
    let (h, rest) = val_at(rules, rest)?;
    let (l, rest) = val_at(rules, rest)?;
    let registers = Registers {
        a,
        b,
        c,
        d,
        e,
        h,
        l,
    };
    Ok((registers, rest))
}

/// A core, and the test that stands in it.
#[inline(always)]
#[tactic(auto, unfolding(crate::specs::Reading::core_at))]
pub fn core_at(
    rules: Rules,
    role: Role,
    bytes: &[u8],
) -> Result<((Core, Option<u8>), &[u8]), CertFault>
    ensures { Gives (λ x. (x.0, x.1.now)) result (core_at rules role bytes.now) }
{
    let (ime, rest) = ime_at(bytes)?;
    let (bound, rest) = byte_between(0, 161, rest)?;
    let (stack_set, rest) = yes_no(rest)?;
    if role.needs_stack() && !stack_set {
        return Err(CertFault::Field);
    }
    let (test, rest) = test_at(rest)?;
    let (ctl, rest) = ctl_at(rest)?;
    let (flags, rest) = flg_at(rest)?;
    let (ie, rest) = val_at(rules, rest)?;
    let (registers, rest) = vals_at(rules, rest)?;
    let core = Core {
        ime,
        bound,
        stack_set,
        ctl,
        flags,
        ie,
        registers,
    };
    Ok(((core, test), rest))
}

/// A core is checked and passed over: whether the stack is set, and the test.
pub fn pass_core(
    rules: Rules,
    role: Role,
    bytes: &[u8],
) -> Result<((bool, Option<u8>), &[u8]), CertFault>
    ensures { Gives (λ x. (x.0, x.1.now)) result (mapped passed (core_at rules role) bytes.now) }
{
    let ((core, test), rest) = core_at(rules, role, bytes)?;
    Ok(((core.stack_set, test), rest))
}

// ---- reading again what has been checked

/// The origin with this number, 0 for none.
#[inline(always)]
pub fn origin_of(number: u8) -> Option<Origin>
    ensures { result ≡ origin_of number }
{
    match number {
        0..12 => older_origin_of(number),
        28 => Some(Origin::MarkHigh),
        29 => Some(Origin::MarkLow),
        _ => Some(Origin::Kept(number - 12)),
    }
}

/// A value by its bytes: its bounds, and its origin and how many low bits are known.
#[inline(always)]
pub fn val_of(lo: u8, hi: u8, tag: u8) -> Val
    ensures { result ≡ to_val ((lo, hi), tag) }
{
    Val {
        lo,
        hi,
        low_bits: tag / 32,
        origin: origin_of(tag % 32),
    }
}

/// The value at a place where one stands.
#[inline(always)]
fn val_in(bytes: &[u8], place: usize) -> Val
    requires { place + 3 ≤ length bytes.now }
    ensures { result ≡ val_in bytes.now place }
{
    val_of(bytes[place], bytes[place + 1], bytes[place + 2])
}

#[inline(always)]
pub fn may_in(bits: u8) -> May
    ensures { result ≡ to_may bits }
{
    May {
        clear: bits % 2 == 1,
        set: bits / 2 == 1,
    }
}

#[inline(always)]
pub fn ime_in(bits: u8) -> ImeSet
    ensures { result ≡ to_ime bits }
{
    ImeSet {
        off: bits % 2 == 1,
        pending: bits / 2 % 2 == 1,
        on: bits / 4 == 1,
    }
}

#[inline(always)]
pub fn flg_in(bits: u8, own: u8) -> Flg
    ensures { result ≡ flg_in bits own }
{
    Flg {
        zero: May {
            clear: bits / 8 % 2 == 1,
            set: bits / 128 == 1,
        },
        subtract: May {
            clear: bits / 4 % 2 == 1,
            set: bits / 64 % 2 == 1,
        },
        half_carry: May {
            clear: bits / 2 % 2 == 1,
            set: bits / 32 % 2 == 1,
        },
        carry: May {
            clear: bits % 2 == 1,
            set: bits / 16 % 2 == 1,
        },
        is_own: own == 2,
    }
}

/// What is kept of the controller: in version 4 five bits say it, and before it all is kept or nothing.
#[inline(always)]
fn kept_in(fourth: bool, bits: u8) -> KeptBanks
    ensures { result ≡ kept_in fourth bits }
{
    if fourth {
        KeptBanks {
            bank: bits % 2 == 1,
            second: bits / 2 % 2 == 1,
            gate: bits / 4 % 2 == 1,
            mode: bits / 8 % 2 == 1,
            high_bank: bits / 16 % 2 == 1,
        }
    } else {
        KeptBanks::all_or_none(bits == 1)
    }
}

/// The controller at its place in a core, which is of version 4 or not.
#[inline(always)]
pub fn ctl_in(fourth: bool, bytes: &[u8]) -> Ctl
    requires { 40 ≤ length bytes.now }
    ensures { result ≡ ctl_in fourth bytes.now }
{
    Ctl {
        bank_lo: u16::from_le_bytes([bytes[5], bytes[6]]),
        bank_hi: u16::from_le_bytes([bytes[7], bytes[8]]),
        second_lo: bytes[9],
        second_hi: bytes[10],
        gate: may_in(bytes[11]),
        mode: may_in(bytes[12]),
        kept: kept_in(fourth, bytes[13]),
    }
}

#[inline(always)]
fn vals_in(bytes: &[u8]) -> Registers<Val>
    requires { 40 ≤ length bytes.now }
    ensures { result ≡ vals_in bytes.now }
{
    Registers {
        a: val_in(bytes, 19),
        b: val_in(bytes, 22),
        c: val_in(bytes, 25),
        d: val_in(bytes, 28),
        e: val_in(bytes, 31),
        h: val_in(bytes, 34),
        l: val_in(bytes, 37),
    }
}

/// The core at the front of bytes that have been checked, of version 4 or not: each field is read at its place, and not checked again.
#[inline(always)]
pub fn core_in(fourth: bool, bytes: &[u8]) -> Core
    requires { 40 ≤ length bytes.now }
    ensures { result ≡ core_in fourth bytes.now }
{
    Core {
        ime: ime_in(bytes[0]),
        bound: bytes[1],
        stack_set: bytes[2] == 1,
        ctl: ctl_in(fourth, bytes),
        flags: flg_in(bytes[14], bytes[15]),
        ie: val_in(bytes, 16),
        registers: vals_in(bytes),
    }
}

/// The core at the front of bytes that have been checked, put in the place of another one, part by part.
#[inline(always)]
pub fn put_core(fourth: bool, bytes: &[u8], core: &mut Core)
    requires { 40 ≤ length bytes.now }
    ensures { core.new ≡ core_in fourth bytes.now }
{
    core.ime = ime_in(bytes[0]);
    core.bound = bytes[1];
    core.stack_set = bytes[2] == 1;
    core.ctl = ctl_in(fourth, bytes);
    core.flags = flg_in(bytes[14], bytes[15]);
    core.ie = val_in(bytes, 16);
    core.registers.a = val_in(bytes, 19);
    core.registers.b = val_in(bytes, 22);
    core.registers.c = val_in(bytes, 25);
    core.registers.d = val_in(bytes, 28);
    core.registers.e = val_in(bytes, 31);
    core.registers.h = val_in(bytes, 34);
    core.registers.l = val_in(bytes, 37);
}

/// The test at the front of bytes that have been checked.
#[inline(always)]
pub fn test_in(bytes: &[u8]) -> Option<u8>
    requires { 40 ≤ length bytes.now }
    ensures { result ≡ test_in bytes.now }
{
    if bytes[3] == 1 { Some(bytes[4]) } else { None }
}
