//! Places that come and go, and tests of their byte.

ghost use Rattle.std.specs.Prelude.{◌≡◌, ◌≤◌};
ghost use Rattle.gb_copies.specs.Places as Places;
ghost use Rattle.gb_copies.specs.Sound.{IsSoundRegister, IsSoundStore, IsSoundFlags, IsSoundPlace, IsSoundTest, IsSoundOnlyTest, IsSoundTestBefore};

use gb_domain::places::{OneByte, Place, Test, has_place};
use gb_ops::op::Register;
use gb_ops::registers::Registers;

fn is_address(address: u16, among: Option<u16>) -> bool
    ensures { result ≡ Places.is_address address among }
{
    match among {
        Some(other) => address == other,
        None => false,
    }
}

/// Whether a place is among those of the byte.
#[tactic(auto, unfolding(crate::specs::Places::is_place))]
pub fn is_place(place: Place, byte: &OneByte) -> bool
    ensures { result ≡ Places.is_place place byte.now }
{
    match place {
        Place::Register(register) => byte.registers.get(register),
        Place::Address(address) => is_address(address, byte.address),
    }
}

fn one_if(is_so: bool) -> u8
    ensures exact { result ≡ Places.one_if is_so }
    ensures small { result ≤ 1 }
{
    if is_so { 1 } else { 0 }
}

fn count_registers(registers: &Registers<bool>) -> u8
    ensures exact { result ≡ Places.count_registers registers.now }
    ensures small { result ≤ 7 }
{
    one_if(registers.a)
        + one_if(registers.b)
        + one_if(registers.c)
        + one_if(registers.d)
        + one_if(registers.e)
        + one_if(registers.h)
        + one_if(registers.l)
}

/// How many places there are.
#[tactic(auto, unfolding(crate::specs::Places::count_places))]
pub(crate) fn count_places(byte: &OneByte) -> u8
    ensures { result ≡ Places.count_places byte.now }
{
    count_registers(&byte.registers) + one_if(byte.address.is_some())
}

/// Without places nothing is said of a byte.
fn of_places(byte: OneByte) -> OneByte
    ensures { result ≡ Places.of_places byte }
{
    if has_place(&byte) {
        byte
    } else {
        OneByte { test: None, ..byte }
    }
}

/// A register is written.
#[tactic(auto, using(crate::proofs::PlaceLaws::without_register_sound), unfolding(crate::specs::Places::without_register))]
pub fn without_register(register: Register, byte: &OneByte) -> OneByte
    ensures exact { result ≡ Places.without_register register byte.now }
    ensures sound { IsSoundRegister register byte.now result }
{
    let mut left = *byte;
    left.registers.set(register, false);
    of_places(left)
}

fn address_outside(first: u16, last: u16, address: Option<u16>) -> Option<u16>
    ensures { result ≡ Places.address_outside first last address }
{
    match address {
        Some(address) if first <= address && address <= last => None,
        _ => address,
    }
}

/// One of the addresses from first to last is written.
#[tactic(auto, using(crate::proofs::PlaceLaws::without_addresses_sound), unfolding(crate::specs::Places::without_addresses))]
pub fn without_addresses(first: u16, last: u16, byte: &OneByte) -> OneByte
    ensures exact { result ≡ Places.without_addresses first last byte.now }
    ensures sound { IsSoundStore first last byte.now result }
{
    of_places(OneByte {
        address: address_outside(first, last, byte.address),
        ..*byte
    })
}

/// The flags are written.
#[tactic(auto, using(crate::proofs::PlaceLaws::without_test_sound), unfolding(crate::specs::Places::without_test))]
pub fn without_test(byte: &OneByte) -> OneByte
    ensures exact { result ≡ Places.without_test byte.now }
    ensures sound { IsSoundFlags byte.now result }
{
    OneByte {
        test: None,
        ..*byte
    }
}

/// A place is written.
#[tactic(auto, unfolding(crate::specs::Places::without_place))]
pub(crate) fn without_place(place: Place, byte: &OneByte) -> OneByte
    ensures { result ≡ Places.without_place place byte.now }
{
    match place {
        Place::Register(register) => without_register(register, byte),
        Place::Address(address) => without_addresses(address, address, byte),
    }
}

/// The place is one of them: an address takes the place of another.
#[tactic(auto, unfolding(crate::specs::Places::with_place))]
pub(crate) fn with_place(place: Place, byte: &OneByte) -> OneByte
    ensures { result ≡ Places.with_place place byte.now }
{
    let mut more = *byte;
    match place {
        Place::Register(register) => more.registers.set(register, true),
        Place::Address(address) => more.address = Some(address),
    }
    more
}

/// The byte of one place, without a test.
#[tactic(auto, using(crate::proofs::PlaceLaws::byte_at_sound))]
pub fn byte_at(place: Place) -> OneByte
    ensures exact { result ≡ Places.byte_at place }
    ensures sound { IsSoundPlace place result }
{
    with_place(place, &OneByte::default())
}

/// The byte of one place, of which the flags say this.
#[tactic(auto, using(crate::proofs::PlaceLaws::only_tested_sound))]
pub fn only_tested(place: Place, test: Test) -> OneByte
    ensures exact { result ≡ Places.only_tested place test }
    ensures sound { IsSoundOnlyTest place test result }
{
    OneByte {
        test: Some(test),
        ..byte_at(place)
    }
}

/// The flags say this of what a place holds: where it is among them, the others stay.
#[tactic(auto, using(crate::proofs::PlaceLaws::tested_sound), unfolding(crate::specs::Places::tested))]
pub fn tested(place: Place, test: Test, byte: &OneByte) -> OneByte
    ensures exact { result ≡ Places.tested place test byte.now }
    ensures sound { IsSoundTest place test byte.now result }
{
    if is_place(place, byte) {
        OneByte {
            test: Some(test),
            ..*byte
        }
    } else {
        only_tested(place, test)
    }
}

/// A is written, and the flags say this of what it held before: of the other places, where there are some. Else they say of A
/// whether it is 0.
#[tactic(auto, using(crate::proofs::PlaceLaws::tested_before_a_sound), unfolding(crate::specs::Places::tested_before_a))]
pub fn tested_before_a(test: Test, byte: &OneByte) -> OneByte
    ensures exact { result ≡ Places.tested_before_a test byte.now }
    ensures sound { IsSoundTestBefore test byte.now result }
{
    if byte.registers.a && count_places(byte) >= 2 {
        let mut others = *byte;
        others.registers.a = false;
        others.test = Some(test);
        others
    } else {
        only_tested(Place::Register(Register::A), Test::Bits(0xFF))
    }
}
