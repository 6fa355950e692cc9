//! A place's byte is copied to another place.

ghost use Rattle.std.specs.Prelude.{◌≡◌, ℕ};
ghost use Rattle.gb_ops.specs.declared.op.Register.{Register};
ghost use Rattle.gb_domain.specs.declared.places.Place.TheVariants as place;
ghost use Rattle.gb_copies.specs.Copies as Copies;
ghost use Rattle.gb_copies.specs.Sound.{IsSoundCopyTo, IsSoundStoreOf};

use crate::places::{byte_at, count_places, is_place, with_place, without_place};
use gb_domain::places::{OneByte, Place, is_same_register};
use gb_ops::op::Register;

fn is_same_place(first: Place, second: Place) -> bool
    ensures { result ≡ Copies.is_same_place first second }
{
    match (first, second) {
        (Place::Register(r), Place::Register(s)) => is_same_register(r, s),
        (Place::Address(a), Place::Address(b)) => a == b,
        _ => false,
    }
}

fn is_a(place: Place) -> bool
    ensures { result ≡ Copies.is_a place }
{
    is_same_place(place, Place::Register(Register::A))
}

/// The two places alone, without a test.
fn two(to: Place, from: Place) -> OneByte
    ensures { result ≡ Copies.two to from }
{
    with_place(to, &byte_at(from))
}

/// Whether what is left of the byte, which isn't the one that is copied, is given up for the copy.
fn gives_way(to: Place, from: Place, left: &OneByte) -> bool
    ensures { result ≡ Copies.gives_way to from left.now }
{
    is_a(to) || (left.test.is_none() && (is_a(from) || count_places(left) <= 1))
}

fn copied_beside(to: Place, from: Place, left: OneByte) -> OneByte
    ensures { result ≡ Copies.copied_beside to from left }
{
    if gives_way(to, from, &left) {
        two(to, from)
    } else {
        left
    }
}

/// A place gets what another one holds; one of both is a register.
#[tactic(auto, using(crate::proofs::CopyLaws::copied_sound_register, crate::proofs::CopyLaws::copied_sound_address), unfolding(crate::specs::Copies::copied))]
pub fn copied(to: Place, from: Place, byte: &OneByte) -> OneByte
    ensures exact { result ≡ Copies.copied to from byte.now }
    ensures sound_register { (r : Register) → to ≡ place.Register r → IsSoundCopyTo r from byte.now result }
    ensures sound_address { (a : ℕ) → (r : Register) → to ≡ place.Address a → from ≡ place.Register r → IsSoundStoreOf a r byte.now result }
{
    if is_same_place(to, from) {
        *byte
    } else if is_place(from, byte) {
        with_place(to, byte)
    } else {
        copied_beside(to, from, without_place(to, byte))
    }
}
