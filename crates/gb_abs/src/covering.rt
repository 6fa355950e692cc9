//! Whether one abstract state stands for all that another one does.

ghost use Rattle.std.specs.Prelude.{◌≡◌, ◌&&◌, true};
ghost use Rattle.gb_abs.specs.Sound.{IsPartOf};
ghost use Rattle.gb_abs.specs.Covering.{origin_number, implied, covers_origin, covers_val, covers_may, covers_flags, covers_ime, covers_kept, covers_low_bank, covers_controller, covers_registers, covers_core, covers_items, cell_at, covers_cells, covers_parts};

use gb_domain::types::{Abs, Cell, Core, Ctl, Flg, ImeSet, KeptBanks, May, Origin, Val};
use gb_domain::values::covers_low_bits;
use gb_ops::machine::Kind;
use gb_ops::registers::Registers;
use gb_vals::vals::any;

/// An origin's number, by which two origins are compared.
#[inline(always)]
fn origin_number(origin: Origin) -> u16
    ensures { result ≡ origin_number origin }
{
    match origin {
        Origin::A => 1,
        Origin::F => 2,
        Origin::B => 3,
        Origin::C => 4,
        Origin::D => 5,
        Origin::E => 6,
        Origin::H => 7,
        Origin::L => 8,
        Origin::Ie => 9,
        Origin::ReturnHigh => 10,
        Origin::ReturnLow => 11,
        Origin::Kept(number) => 30 + u16::from(number),
        Origin::MarkHigh => 28,
        Origin::MarkLow => 29,
    }
}

#[inline(always)]
fn implied(a: bool, b: bool) -> bool
    ensures { result ≡ implied a b }
{
    !a || b
}

/// Whether a value of the first origin is one of the second. Where the second is none, any is.
#[inline(always)]
pub fn covers_origin(from: Option<Origin>, to: Option<Origin>) -> bool
    ensures { result ≡ covers_origin from to }
{
    match (from, to) {
        (_, None) => true,
        (None, Some(_)) => false,
        (Some(from), Some(to)) => origin_number(from) == origin_number(to),
    }
}

/// Whether each value that s stands for is one that t stands for.
#[inline(always)]
#[tactic(auto, unfolding(crate::specs::Covering::covers_val))]
pub fn covers_val(s: &Val, t: &Val) -> bool
    ensures { result ≡ covers_val s.now t.now }
{
    t.lo <= s.lo && s.hi <= t.hi && covers_low_bits(s, t) && covers_origin(s.origin, t.origin)
}

/// Whether each value that s may have is one that t may have.
#[inline(always)]
pub fn covers_may(s: May, t: May) -> bool
    ensures { result ≡ covers_may s t }
{
    implied(s.set, t.set) && implied(s.clear, t.clear)
}

/// Whether each value that the flags may have in s is one that they may have in t.
#[inline(always)]
#[tactic(auto, unfolding(crate::specs::Covering::covers_flags))]
pub fn covers_flags(s: &Flg, t: &Flg) -> bool
    ensures { result ≡ covers_flags s.now t.now }
{
    covers_may(s.zero, t.zero)
        && covers_may(s.subtract, t.subtract)
        && covers_may(s.half_carry, t.half_carry)
        && covers_may(s.carry, t.carry)
        && implied(t.is_own, s.is_own)
}

/// Whether each value that the interrupt master enable may have in s is one that it may have in t.
#[inline(always)]
#[tactic(auto, unfolding(crate::specs::Covering::covers_ime))]
pub fn covers_ime(s: &ImeSet, t: &ImeSet) -> bool
    ensures { result ≡ covers_ime s.now t.now }
{
    implied(s.off, t.off) && implied(s.pending, t.pending) && implied(s.on, t.on)
}

/// Whether s has kept what t has.
#[inline(always)]
#[tactic(auto, unfolding(crate::specs::Covering::covers_kept))]
fn covers_kept(s: KeptBanks, t: KeptBanks) -> bool
    ensures { result ≡ covers_kept s t }
{
    implied(t.bank, s.bank)
        && implied(t.second, s.second)
        && implied(t.gate, s.gate)
        && implied(t.mode, s.mode)
        && implied(t.high_bank, s.high_bank)
}

/// Whether each value that the low eight bits of MBC5's bank may have in s is one that they may have in t.
#[inline(always)]
#[tactic(auto, unfolding(crate::specs::Covering::covers_low_bank))]
fn covers_low_bank(kind: Kind, s: &Ctl, t: &Ctl) -> bool
    ensures { result ≡ covers_low_bank kind s.now t.now }
{
    match kind {
        Kind::Mbc5 => t.bank_lo % 256 <= s.bank_lo % 256 && s.bank_hi % 256 <= t.bank_hi % 256,
        _ => true,
    }
}

/// Whether each value that the registers of such a controller may have in s is one that they may have in t.
#[inline(always)]
#[tactic(auto, unfolding(crate::specs::Covering::covers_controller))]
pub fn covers_controller(kind: Kind, s: &Ctl, t: &Ctl) -> bool
    ensures { result ≡ covers_controller kind s.now t.now }
{
    covers_low_bank(kind, s, t)
        && t.bank_lo <= s.bank_lo
        && s.bank_hi <= t.bank_hi
        && t.second_lo <= s.second_lo
        && s.second_hi <= t.second_hi
        && covers_may(s.gate, t.gate)
        && covers_may(s.mode, t.mode)
        && covers_kept(s.kept, t.kept)
}

#[inline(always)]
#[tactic(auto, unfolding(crate::specs::Covering::covers_registers))]
fn covers_registers(s: &Registers<Val>, t: &Registers<Val>) -> bool
    ensures { result ≡ covers_registers s.now t.now }
{
    covers_val(&s.a, &t.a)
        && covers_val(&s.b, &t.b)
        && covers_val(&s.c, &t.c)
        && covers_val(&s.d, &t.d)
        && covers_val(&s.e, &t.e)
        && covers_val(&s.h, &t.h)
        && covers_val(&s.l, &t.l)
}

/// Whether each part of t stands for what the part of s does, but for items and cells, in a cartridge with such a controller.
#[inline(always)]
#[tactic(auto, unfolding(crate::specs::Covering::covers_core))]
pub fn covers_core(kind: Kind, s: &Core, t: &Core) -> bool
    ensures { result ≡ covers_core kind s.now t.now }
{
    covers_registers(&s.registers, &t.registers)
        && covers_flags(&s.flags, &t.flags)
        && covers_val(&s.ie, &t.ie)
        && covers_ime(&s.ime, &t.ime)
        && covers_controller(kind, &s.ctl, &t.ctl)
        && s.bound <= t.bound
        && implied(t.stack_set, s.stack_set)
}

/// Whether t has as many items as s, and each covers that of s at the same place.
pub fn covers_items(s: &[Val], t: &[Val]) -> bool
    ensures { result ≡ covers_items s.now t.now }
{
    let Some((first, rest)) = s.split_first() else {
        return t.is_empty();
    };
    let Some((other, others)) = t.split_first() else {
        return false;
    };
    covers_val(first, other) && covers_items(rest, others)
}

/// What is known of the byte at an address.
pub fn cell_at(address: u16, cells: &[Cell]) -> Val
    ensures { result ≡ cell_at address cells.now }
{
    match cells {
        [] => any(),
        [cell, rest @ ..] => {
            if cell.address == address {
                cell.val
            } else {
                cell_at(address, rest)
            }
        }
    }
}

#[tactic(auto, unfolding(crate::specs::Covering::covers_cells))]
fn covers_cells(s: &[Cell], t: &[Cell]) -> bool
    ensures { result ≡ covers_cells s.now t.now }
{
    t.iter()
        .all(|cell| covers_val(&cell_at(cell.address, s), &cell.val))
}

#[tactic(auto, unfolding(crate::specs::Covering::covers_parts))]
fn covers_each(kind: Kind, s: &Abs, t: &Abs) -> bool
    ensures { result ≡ covers_parts kind s.now t.now }
{
    covers_core(kind, s.core(), t.core())
        && covers_items(s.items(), t.items())
        && covers_cells(s.cells(), t.cells())
}

/// Whether each part of t stands for what that part of s does, by itself (abstract interpretation: inclusion; the parts'
/// tests are own), in a program with such a controller.
#[tactic(auto, using(crate::proofs::CoveringLaws::covers_parts_sound))]
pub fn covers_parts(kind: Kind, s: &Abs, t: &Abs) -> bool
    ensures exact { result ≡ covers_parts kind s.now t.now }
    ensures sound { result ≡ true → IsPartOf kind s.now t.now }
{
    covers_each(kind, s, t)
}

/// Whether the items and the cells of t stand for what those of s do.
pub fn covers_lists(s: &Abs, t: &Abs) -> bool
    ensures { result ≡ (covers_items s.now.items t.now.items && covers_cells s.now.cells t.now.cells) }
{
    covers_items(s.items(), t.items()) && covers_cells(s.cells(), t.cells())
}
