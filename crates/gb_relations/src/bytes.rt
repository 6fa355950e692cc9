//! What an instruction leaves of the places that hold one byte, and what its flags then say of it.

ghost use Rattle.std.specs.Prelude.{◌≡◌, ◌+◌};
ghost use Rattle.gb_relations.specs.Written.{list_of};
ghost use Rattle.gb_relations.specs.Bytes as Bytes;

use crate::places::{loaded_at, stored_at};
use crate::pointed_bits::may_be_at;
use crate::written::{Written, counted, writes_flags, written_by};
use gb_copies::copies::copied;
use gb_copies::places::{
    only_tested, tested, tested_before_a, without_addresses, without_register, without_test,
};
use gb_domain::LowBits;
use gb_domain::pairs::{Bounds, WordPair};
use gb_domain::places::{OneByte, Place, StackBytes, Test};
use gb_domain::types::Val;
use gb_ops::op::{AluOp, Indirect, Op, Operand, Register};
use gb_pairs::bounds::bounds_of;
use gb_pairs::is_single;
use gb_pairs::values::Values;

const A: Place = Place::Register(Register::A);

const IS_ZERO: Test = Test::Bits(0xFF);

// ---- addresses

/// An address alone.
pub fn one(address: u16) -> Bounds
    ensures { result ≡ Bytes.one address }
{
    Bounds {
        first: address,
        last: address,
    }
}

/// The addresses that HL may hold.
pub fn at_hl(values: &Values) -> Bounds
    ensures { result ≡ Bytes.at_hl values.now }
{
    bounds_of(WordPair::Hl, values)
}

/// The addresses that an operand's pair may hold.
pub fn at_indirect(indirect: Indirect, values: &Values) -> Bounds
    ensures { result ≡ Bytes.at_indirect indirect values.now }
{
    match indirect {
        Indirect::Bc => bounds_of(WordPair::Bc, values),
        Indirect::De => bounds_of(WordPair::De, values),
        Indirect::HlIncrement | Indirect::HlDecrement => at_hl(values),
    }
}

/// An address of FF00 to FFFF by its low byte.
pub(crate) fn high(low: u8) -> u16
    ensures { result ≡ 0xFF00 + low }
{
    0xFF00 + u16::from(low)
}

/// FF00 and what C may hold.
pub fn at_high(values: &Values) -> Bounds
    ensures { result ≡ Bytes.at_high values.now }
{
    Bounds {
        first: high(values.registers.c.lo),
        last: high(values.registers.c.hi),
    }
}

// ---- forgetting

fn without_registers(written: Written, byte: &OneByte) -> OneByte
    ensures { result ≡ Bytes.without_registers (list_of written) byte.now }
{
    match written {
        Written::Nothing => *byte,
        Written::One(q) => without_register(q, byte),
        Written::Two(q, r) => without_register(r, &without_register(q, byte)),
        Written::Three(q, r, s) => {
            let left = without_register(r, &without_register(q, byte));
            without_register(s, &left)
        }
    }
}

fn may_meet(bits: Option<LowBits>, address: Option<u16>) -> bool
    ensures { result ≡ Bytes.may_meet bits address }
{
    match address {
        None => true,
        Some(address) => may_be_at(bits, address),
    }
}

/// One of the addresses is written, which has these low bits.
fn without_all(bits: Option<LowBits>, addresses: Bounds, byte: &OneByte) -> OneByte
    ensures { result ≡ Bytes.without_all bits addresses byte.now }
{
    if may_meet(bits, byte.address) {
        without_addresses(addresses.first, addresses.last, byte)
    } else {
        *byte
    }
}

fn without_test_if(is_written: bool, byte: OneByte) -> OneByte
    ensures { result ≡ Bytes.without_test_if is_written byte }
{
    if is_written {
        without_test(&byte)
    } else {
        byte
    }
}

// ---- copies

/// A register gets what a place holds, or what is known of no place.
fn loaded(to: Register, from: Option<Place>, byte: &OneByte) -> OneByte
    ensures { result ≡ Bytes.loaded to from byte.now }
{
    match from {
        None => without_register(to, byte),
        Some(from) => copied(Place::Register(to), from, byte),
    }
}

/// A register is stored at a place, or somewhere among addresses.
fn stored(
    bits: Option<LowBits>,
    from: Register,
    addresses: Bounds,
    to: Option<Place>,
    byte: &OneByte,
) -> OneByte
    ensures { result ≡ Bytes.stored bits from addresses to byte.now }
{
    match to {
        None => without_all(bits, addresses, byte),
        Some(to) => copied(to, Place::Register(from), byte),
    }
}

fn loaded_a(stack: StackBytes, addresses: Bounds, byte: &OneByte) -> OneByte
    ensures { result ≡ Bytes.loaded_a stack addresses byte.now }
{
    loaded(Register::A, loaded_at(stack, addresses), byte)
}

fn stored_a(bits: Option<LowBits>, stack: StackBytes, addresses: Bounds, byte: &OneByte) -> OneByte
    ensures { result ≡ Bytes.stored_a bits stack addresses byte.now }
{
    stored(
        bits,
        Register::A,
        addresses,
        stored_at(stack, addresses),
        byte,
    )
}

/// LD of a byte.
fn moved(
    bits: Option<LowBits>,
    stack: StackBytes,
    to: Operand,
    from: Operand,
    values: &Values,
    byte: &OneByte,
) -> OneByte
    ensures { result ≡ Bytes.moved bits stack to from values.now byte.now }
{
    match (to, from) {
        (Operand::Register(to), Operand::Register(from)) => copied(
            Place::Register(to),
            Place::Register(from),
            byte,
        ),
        (Operand::Register(to), Operand::AtHl) => loaded(to, loaded_at(stack, at_hl(values)), byte),
        (Operand::AtHl, Operand::Register(from)) => {
            let addresses = at_hl(values);
            stored(bits, from, addresses, stored_at(stack, addresses), byte)
        }
        (Operand::AtHl, Operand::AtHl) => without_all(bits, at_hl(values), byte),
    }
}

// ---- tests

fn computed_at(
    bits: Option<LowBits>,
    to: Option<Place>,
    addresses: Bounds,
    byte: &OneByte,
) -> OneByte
    ensures { result ≡ Bytes.computed_at bits to addresses byte.now }
{
    match to {
        None => without_test(&without_all(bits, addresses, byte)),
        Some(place) => only_tested(place, IS_ZERO),
    }
}

/// Z says whether what was computed is 0.
fn computed(
    bits: Option<LowBits>,
    stack: StackBytes,
    operand: Operand,
    values: &Values,
    byte: &OneByte,
) -> OneByte
    ensures { result ≡ Bytes.computed bits stack operand values.now byte.now }
{
    match operand {
        Operand::Register(register) => only_tested(Place::Register(register), IS_ZERO),
        Operand::AtHl => {
            let addresses = at_hl(values);
            computed_at(bits, stored_at(stack, addresses), addresses, byte)
        }
    }
}

#[tactic(auto, using(std::proofs::lemmas::Nat::one_shl), unfolding(gb_ops::specs::Arithmetic::mask_of))]
fn bit_of(n: u8) -> Test
    ensures { result ≡ Bytes.bit_of n }
{
    Test::Bits(1 << (n % 8))
}

fn bit_tested_at(from: Option<Place>, n: u8, byte: &OneByte) -> OneByte
    ensures { result ≡ Bytes.bit_tested_at from n byte.now }
{
    match from {
        None => without_test(byte),
        Some(place) => tested(place, bit_of(n), byte),
    }
}

fn bit_tested(
    stack: StackBytes,
    n: u8,
    operand: Operand,
    values: &Values,
    byte: &OneByte,
) -> OneByte
    ensures { result ≡ Bytes.bit_tested stack n operand values.now byte.now }
{
    match operand {
        Operand::Register(register) => tested(Place::Register(register), bit_of(n), byte),
        Operand::AtHl => bit_tested_at(loaded_at(stack, at_hl(values)), n, byte),
    }
}

/// An operation of A with an operand, which may be known.
fn of_a(how: AluOp, operand: Option<u8>, byte: &OneByte) -> OneByte
    ensures { result ≡ Bytes.of_a how operand byte.now }
{
    match (how, operand) {
        (AluOp::Cp, Some(n)) => tested(A, Test::Compare(n), byte),
        (AluOp::Cp, None) => without_test(byte),
        (AluOp::Sub, Some(n)) => tested_before_a(Test::Compare(n), byte),
        (AluOp::And, Some(mask)) => tested_before_a(Test::Bits(mask), byte),
        _ => only_tested(A, IS_ZERO),
    }
}

fn of_a_itself(how: AluOp, byte: &OneByte) -> OneByte
    ensures { result ≡ Bytes.of_a_itself how byte.now }
{
    match how {
        AluOp::And | AluOp::Or => tested(A, Test::Compare(0), byte),
        AluOp::Cp => without_test(byte),
        _ => only_tested(A, IS_ZERO),
    }
}

fn known(val: Val) -> Option<u8>
    ensures { result ≡ Bytes.known val }
{
    if is_single(val) { Some(val.lo) } else { None }
}

/// An operation of A; `low` is what was read at HL.
fn of_a_with(how: AluOp, operand: Operand, values: &Values, low: Val, byte: &OneByte) -> OneByte
    ensures { result ≡ Bytes.of_a_with how operand values.now low byte.now }
{
    match operand {
        Operand::Register(Register::A) => of_a_itself(how, byte),
        Operand::Register(register) => of_a(how, known(values.registers.get(register)), byte),
        Operand::AtHl => of_a(how, known(low), byte),
    }
}

// ---- instructions

/// The places behind a taken instruction; the values are those before it, `low` is what it read at an address, and `bits` is what
/// is known of the low bits of an address that it stores at by a pointer.
#[tactic(auto, unfolding(crate::specs::Bytes::byte_after))]
pub(crate) fn byte_after(
    bits: Option<LowBits>,
    stack: StackBytes,
    op: Op,
    values: &Values,
    low: Val,
    byte: &OneByte,
) -> OneByte
    ensures { result ≡ Bytes.byte_after bits stack op values.now low byte.now }
{
    match op {
        Op::StoreA(to) => {
            let left = stored_a(bits, stack, at_indirect(to, values), byte);
            without_registers(counted(to), &left)
        }
        Op::LoadA(from) => {
            let left = loaded_a(stack, at_indirect(from, values), byte);
            without_registers(counted(from), &left)
        }
        Op::Increment(operand) | Op::Decrement(operand) | Op::Shift(_, operand) => {
            computed(bits, stack, operand, values, byte)
        }
        Op::LoadImmediate(Operand::AtHl, _)
        | Op::Reset(_, Operand::AtHl)
        | Op::Set(_, Operand::AtHl) => without_all(bits, at_hl(values), byte),
        Op::StoreSp(address) => {
            let left = without_all(None, one(address), byte);
            without_all(None, one(address.wrapping_add(1)), &left)
        }
        Op::Load(to, from) => moved(bits, stack, to, from, values, byte),
        Op::Alu(how, operand) => of_a_with(how, operand, values, low, byte),
        Op::AluImmediate(how, n) => of_a(how, Some(n), byte),
        Op::StoreHigh(n) => stored_a(None, stack, one(high(n)), byte),
        Op::LoadHigh(n) => loaded_a(stack, one(high(n)), byte),
        Op::StoreHighC => stored_a(bits, stack, at_high(values), byte),
        Op::LoadHighC => loaded_a(stack, at_high(values), byte),
        Op::StoreAbsolute(address) => stored_a(None, stack, one(address), byte),
        Op::LoadAbsolute(address) => loaded_a(stack, one(address), byte),
        Op::Bit(n, operand) => bit_tested(stack, n, operand, values, byte),
        _ => without_test_if(writes_flags(op), without_registers(written_by(op), byte)),
    }
}
