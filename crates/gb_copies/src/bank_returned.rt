//! Shadows as a routine returns.

ghost use Rattle.std.specs.Prelude.{◌≡◌};
ghost use Rattle.gb_copies.specs.Shadows as Shadowing;
ghost use Rattle.gb_copies.specs.BankReturned as Returned;

use gb_domain::places::NO_REGISTER;
use gb_domain::summary::Shadows;
use gb_ops::registers::Registers;

/// What a routine leaves as it was when it was called.
#[derive(Clone, Copy)]
pub struct Preserved {
    /// The window's register.
    pub window: bool,
    pub registers: Registers<bool>,
    /// The byte at the caller's address.
    pub address: bool,
}

fn either_registers(first: &Registers<bool>, second: &Registers<bool>) -> Registers<bool>
    ensures { result ≡ Shadowing.either_registers first.now second.now }
{
    Registers {
        a: first.a || second.a,
        b: first.b || second.b,
        c: first.c || second.c,
        d: first.d || second.d,
        e: first.e || second.e,
        h: first.h || second.h,
        l: first.l || second.l,
    }
}

fn both_registers(first: &Registers<bool>, second: &Registers<bool>) -> Registers<bool>
    ensures { result ≡ Shadowing.both_registers first.now second.now }
{
    Registers {
        a: first.a && second.a,
        b: first.b && second.b,
        c: first.c && second.c,
        d: first.d && second.d,
        e: first.e && second.e,
        h: first.h && second.h,
        l: first.l && second.l,
    }
}

fn registers_if(is_so: bool, registers: Registers<bool>) -> Registers<bool>
    ensures { result ≡ Returned.registers_if is_so registers }
{
    if is_so { registers } else { NO_REGISTER }
}

fn address_returned(stays: bool, exit: Option<u16>, caller: Option<u16>) -> Option<u16>
    ensures { result ≡ Returned.address_returned stays exit caller }
{
    match exit {
        Some(address) => Some(address),
        None if stays => caller,
        None => None,
    }
}

/// The shadows where a routine returns: those of its exit, and of the caller's those whose byte it kept, where it kept the window's
/// register.
#[tactic(auto, using(crate::proofs::BankReturnedLaws::returned_sound), unfolding(crate::specs::BankReturned::returned))]
pub fn returned(kept: &Preserved, exit: &Shadows, caller: &Shadows) -> Shadows
    ensures exact { result ≡ Returned.returned kept.now exit.now caller.now }
    ensures sound { Returned.IsSoundReturn kept.now exit.now caller.now result }
{
    let stays = both_registers(&kept.registers, &caller.registers);
    Shadows {
        registers: either_registers(&exit.registers, &registers_if(kept.window, stays)),
        address: address_returned(kept.window && kept.address, exit.address, caller.address),
    }
}
