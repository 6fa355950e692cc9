//! Covering of shadows.

ghost use Rattle.std.specs.Prelude.{◌≡◌, true};
ghost use Rattle.gb_copies.specs.BankCovering as Covering;

use crate::windows::{BankWindow, has_windows, left_by};
use gb_domain::StridedInterval;
use gb_domain::pairs::Bounds;
use gb_domain::summary::Shadows;
use gb_ops::machine::Kind;
use gb_ops::op::Register;
use gb_ops::registers::Registers;

/// What is known where shadows are asked for: the registers, the byte at the address that is to be a shadow (any byte where none is),
/// and the bounds of the window's register.
#[derive(Clone, Copy)]
pub struct Known {
    pub registers: Registers<StridedInterval>,
    pub memory: StridedInterval,
    pub bounds: Bounds,
}

#[tactic(auto, unfolding(crate::specs::BankCovering::is_left))]
fn is_left(kind: Kind, window: BankWindow, bounds: Bounds, byte: StridedInterval) -> bool
    ensures { result ≡ Covering.is_left kind window bounds byte }
{
    byte.lo == byte.hi
        && bounds.first == bounds.last
        && (!has_windows(kind) || u16::from(left_by(kind, window, byte.lo)) == bounds.first)
}

#[tactic(auto, unfolding(crate::specs::BankCovering::covers_register))]
fn covers_register(
    kind: Kind,
    window: BankWindow,
    known: &Known,
    shadows: &Shadows,
    wanted: &Shadows,
    register: Register,
) -> bool
    ensures { result ≡ Covering.covers_register kind window known.now shadows.now wanted.now register }
{
    !wanted.registers.get(register)
        || shadows.registers.get(register)
        || is_left(kind, window, known.bounds, known.registers.get(register))
}

fn covers_address(
    kind: Kind,
    window: BankWindow,
    known: &Known,
    shadows: &Shadows,
    address: Option<u16>,
) -> bool
    ensures { result ≡ Covering.covers_address kind window known.now shadows.now address }
{
    let Some(address) = address else { return true };
    let is_shadow = match shadows.address {
        Some(other) => address == other,
        None => false,
    };
    is_shadow || is_left(kind, window, known.bounds, known.memory)
}

#[tactic(auto, unfolding(crate::specs::BankCovering::covers))]
fn covers_places(
    kind: Kind,
    window: BankWindow,
    known: &Known,
    shadows: &Shadows,
    wanted: &Shadows,
) -> bool
    ensures { result ≡ Covering.covers kind window known.now shadows.now wanted.now }
{
    covers_register(kind, window, known, shadows, wanted, Register::A)
        && covers_register(kind, window, known, shadows, wanted, Register::B)
        && covers_register(kind, window, known, shadows, wanted, Register::C)
        && covers_register(kind, window, known, shadows, wanted, Register::D)
        && covers_register(kind, window, known, shadows, wanted, Register::E)
        && covers_register(kind, window, known, shadows, wanted, Register::H)
        && covers_register(kind, window, known, shadows, wanted, Register::L)
        && covers_address(kind, window, known, shadows, wanted.address)
}

/// Whether each place that is to be a shadow is one: it is among those that are, or its byte is known, and so is the register, which is
/// what the byte leaves.
#[tactic(auto, using(crate::proofs::BankCoveringLaws::covers_sound))]
pub fn covers(
    kind: Kind,
    window: BankWindow,
    known: &Known,
    shadows: &Shadows,
    wanted: &Shadows,
) -> bool
    ensures exact { result ≡ Covering.covers kind window known.now shadows.now wanted.now }
    ensures sound { result ≡ true → Covering.IsPartOf kind window known.now shadows.now wanted.now }
{
    covers_places(kind, window, known, shadows, wanted)
}
