//! Shadows that come and go.

ghost use Rattle.std.specs.Prelude.{◌≡◌, IfSome};
ghost use Rattle.gb_copies.specs.Shadows as Shadowing;
ghost use Rattle.gb_copies.specs.ShadowSound.{IsSoundRegister, IsSoundStore, IsSoundCopyTo, IsSoundStoreOf, IsSoundSwitch};

use gb_domain::places::{NO_REGISTER, OneByte, Place};
use gb_domain::summary::Shadows;
use gb_ops::op::Register;
use gb_ops::registers::Registers;

/// Whether a place is one of them.
#[tactic(auto, unfolding(crate::specs::Shadows::is_shadow))]
pub fn is_shadow(place: Place, shadows: &Shadows) -> bool
    ensures { result ≡ Shadowing.is_shadow place shadows.now }
{
    match place {
        Place::Register(register) => shadows.registers.get(register),
        Place::Address(address) => match shadows.address {
            Some(other) => address == other,
            None => false,
        },
    }
}

/// A register is written.
#[tactic(auto, using(crate::proofs::ShadowLaws::without_register_sound), unfolding(crate::specs::Shadows::without_register))]
pub fn without_register(register: Register, shadows: &Shadows) -> Shadows
    ensures exact { result ≡ Shadowing.without_register register shadows.now }
    ensures sound { IsSoundRegister register shadows.now result }
{
    let mut left = *shadows;
    left.registers.set(register, false);
    left
}

/// One of the addresses from first to last is written.
#[tactic(auto, using(crate::proofs::ShadowLaws::without_addresses_sound), unfolding(crate::specs::Shadows::without_addresses))]
pub fn without_addresses(first: u16, last: u16, shadows: &Shadows) -> Shadows
    ensures exact { result ≡ Shadowing.without_addresses first last shadows.now }
    ensures sound { IsSoundStore first last shadows.now result }
{
    let address = match shadows.address {
        Some(address) if first <= address && address <= last => None,
        _ => shadows.address,
    };
    Shadows {
        address,
        ..*shadows
    }
}

/// A register gets a place's byte: it is one of them exactly where the place is.
#[tactic(auto, using(crate::proofs::ShadowLaws::copied_to_register_sound), unfolding(crate::specs::Shadows::copied_to_register))]
pub fn copied_to_register(to: Register, from: Place, shadows: &Shadows) -> Shadows
    ensures exact { result ≡ Shadowing.copied_to_register to from shadows.now }
    ensures sound { IsSoundCopyTo to from shadows.now result }
{
    let mut copied = *shadows;
    copied.registers.set(to, is_shadow(from, shadows));
    copied
}

fn address_or(address: u16, first: Option<u16>) -> Option<u16>
    ensures { result ≡ Shadowing.address_or address first }
{
    Some(first.unwrap_or(address))
}

/// An address gets a place's byte. Of two addresses the first stays.
#[tactic(auto, using(crate::proofs::ShadowLaws::copied_to_address_sound), unfolding(crate::specs::Shadows::copied_to_address))]
pub fn copied_to_address(to: u16, from: Place, shadows: &Shadows) -> Shadows
    ensures exact { result ≡ Shadowing.copied_to_address to from shadows.now }
    ensures sound { IsSoundStoreOf to from shadows.now result }
{
    if is_shadow(from, shadows) {
        Shadows {
            address: address_or(to, shadows.address),
            ..*shadows
        }
    } else {
        without_addresses(to, to, shadows)
    }
}

fn stored_register(register: Register, byte: &OneByte) -> Shadows
    ensures { result ≡ Shadowing.stored_register register byte.now }
{
    if byte.registers.get(register) {
        return Shadows {
            registers: byte.registers,
            address: byte.address,
        };
    }
    let mut alone = Shadows::default();
    alone.registers.set(register, true);
    alone
}

/// A byte is stored into the window. Where it is a register's, that register is a shadow, and all places that hold its byte are;
/// else none is.
#[tactic(auto, using(crate::proofs::ShadowLaws::stored_sound), unfolding(crate::specs::Shadows::stored))]
pub fn stored(register: Option<Register>, byte: &OneByte) -> Shadows
    ensures exact { result ≡ Shadowing.stored register byte.now }
    ensures sound { IfSome register (λ q. IsSoundSwitch q byte.now result) }
{
    match register {
        Some(register) => stored_register(register, byte),
        None => Shadows::default(),
    }
}
