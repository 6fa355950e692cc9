//! What the values of a callee's exit are to its caller: of copies, the caller's own state says what they are copies of.

ghost use Rattle.std.specs.Prelude.{◌≡◌, slice_get};
ghost use Rattle.gb_calls.specs.Parts as Parts;
ghost use Rattle.gb_calls.specs.Told as Told;

use arrayvec::ArrayVec;
use gb_domain::interval::cut;
use gb_domain::types::{Abs, Cell, Origin, Val};
use gb_domain::values::interval_of;
use gb_product::{
    Program, States, any, byte_of, flags_val, is_own, left_of, top_word, without_origin,
};

/// A caller's state as it called, and the addresses that its callee names to be kept.
#[derive(Clone, Copy)]
pub(crate) struct Caller<'a> {
    pub program: &'a Program<'a>,
    /// The rules are those of version 4, which know the whole program.
    pub is_whole: bool,
    pub kept: &'a ArrayVec<u16, 16>,
    pub state: &'a Abs,
}

/// The byte at an address, as a state of the program knows it.
pub(crate) fn byte_there(program: &Program<'_>, state: &Abs, address: u16) -> Val
    ensures { result ≡ Parts.byte_there program.now state.now address }
{
    byte_of(program, &States::of(state), address)
}

/// The byte at the kept address with a number; any where there is none.
fn kept_byte(caller: &Caller<'_>, number: u8) -> Val
    ensures { result ≡ Told.byte_or_any caller.now.program.now caller.now.state.now (slice_get caller.now.kept.now.items number) }
{
    match caller.kept.as_slice().get(usize::from(number)) {
        None => any(),
        Some(address) => byte_there(caller.program, caller.state, *address),
    }
}

/// What the caller's state says of what an origin names in the callee. Of the address at which the callee puts its stack aside it
/// says nothing.
fn named(caller: &Caller<'_>, origin: Origin) -> Val
    ensures { result ≡ Told.named caller.now.program.now caller.now.kept.now.items caller.now.state.now origin }
{
    let core = caller.state.core();
    let registers = &core.registers;
    match origin {
        Origin::A => registers.a,
        Origin::F => flags_val(core.flags),
        Origin::B => registers.b,
        Origin::C => registers.c,
        Origin::D => registers.d,
        Origin::E => registers.e,
        Origin::H => registers.h,
        Origin::L => registers.l,
        Origin::Ie => core.ie,
        Origin::ReturnHigh => top_word(caller.state).high,
        Origin::ReturnLow => top_word(caller.state).low,
        Origin::Kept(number) => kept_byte(caller, number),
        Origin::MarkHigh | Origin::MarkLow => any(),
    }
}

// ---- by the rules of version 4

/// The values that both have, copies of what the first one is a copy of; where there are none, all of the first one's.
fn shared(val: Val, other: Val) -> Val
    ensures { result ≡ Told.shared val other }
{
    left_of(val, cut(interval_of(val), interval_of(other)))
}

/// Whether two values have some in common.
fn have_some(val: Val, other: Val) -> bool
    ensures { result ≡ Told.have_some val other }
{
    cut(interval_of(val), interval_of(other)).is_some()
}

/// A copy is what the caller's state says of what it is a copy of, as far as the exit leaves it; another value is the exit's.
#[inline(never)]
#[tactic(auto, unfolding(crate::specs::Told::told))]
fn told(caller: &Caller<'_>, exit: Val) -> Val
    ensures { result ≡ Told.told caller.now.program.now caller.now.kept.now.items caller.now.state.now exit }
{
    match exit.origin {
        None => exit,
        Some(origin) => shared(named(caller, origin), exit),
    }
}

/// Whether something is left of a value; else nothing is meant.
#[tactic(auto, unfolding(crate::specs::Told::is_left))]
pub(crate) fn is_left(caller: &Caller<'_>, exit: Val) -> bool
    ensures { result ≡ Told.is_left caller.now.program.now caller.now.kept.now.items caller.now.state.now exit }
{
    match exit.origin {
        None => true,
        Some(origin) => have_some(named(caller, origin), exit),
    }
}

// ---- by all rules

/// What the callee gives back as it was is the caller's; else its exit says what it is, and that is no copy.
fn given_back(caller: &Caller<'_>, origin: Origin, exit: Val) -> Val
    ensures { result ≡ Told.given_back origin (Told.named caller.now.program.now caller.now.kept.now.items caller.now.state.now origin) exit }
{
    if is_own(origin, exit) {
        named(caller, origin)
    } else {
        without_origin(exit)
    }
}

/// What a register or IE is to the caller, by its own origin. In versions 1 to 3 its own copy alone is the caller's.
pub(crate) fn place_back(caller: &Caller<'_>, origin: Origin, exit: Val) -> Val
    ensures { result ≡ Told.place_back caller.now.program.now caller.now.is_whole caller.now.kept.now.items caller.now.state.now origin exit }
{
    if caller.is_whole {
        told(caller, exit)
    } else {
        given_back(caller, origin, exit)
    }
}

/// What an item or the value of a cell is to the caller. In versions 1 to 3 it is no copy.
pub(crate) fn val_back(caller: &Caller<'_>, exit: Val) -> Val
    ensures { result ≡ Told.val_back caller.now.program.now caller.now.is_whole caller.now.kept.now.items caller.now.state.now exit }
{
    if caller.is_whole {
        told(caller, exit)
    } else {
        without_origin(exit)
    }
}

pub(crate) fn cell_back(caller: &Caller<'_>, cell: Cell) -> Cell
    ensures { result ≡ Told.cell_back caller.now.program.now caller.now.is_whole caller.now.kept.now.items caller.now.state.now cell }
{
    Cell {
        val: val_back(caller, cell.val),
        ..cell
    }
}
