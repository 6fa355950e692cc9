//! Covering by the core of a node's states, part by part in the certificate's bytes.

ghost use Rattle.std.specs.Prelude.{◌≡◌, ◌+◌, ◌*◌, ◌≤◌, ◌<◌, ◌==◌, [], ◌++◌, length};
ghost use Rattle.gb_product.specs.Below.gb_abs.Covering as Covering;
ghost use Rattle.gb_cert.specs.Below.gb_states.Checked.{core_in, flg_in, val_in, vals_in, listed_items, cell_of, listed_cells};
ghost use Rattle.gb_cert.specs.Below.gb_states.WholeReading.{to_val};

use arrayvec::ArrayVec;
use gb_cert::{ctl_in, ime_in, val_of};
use gb_domain::types::{Cell, Core, Flg, Val};
use gb_ops::machine::Kind;
use gb_ops::registers::Registers;
use gb_product::{covers_controller, covers_ime, covers_val};

/// The bytes of a core.
const CORE: usize = 40;

/// Whether the value at a place stands for this one.
#[inline(always)]
fn covers_val_in(s: &Val, bytes: &[u8], place: usize) -> bool
    requires { place + 3 ≤ length bytes.now }
    ensures { result ≡ Covering.covers_val s.now (val_in bytes.now place) }
{
    covers_val(s, &val_of(bytes[place], bytes[place + 1], bytes[place + 2]))
}

#[inline(always)]
#[tactic(auto, unfolding(crate::specs::Opened::covers_registers))]
fn covers_registers_in(s: &Registers<Val>, bytes: &[u8]) -> bool
    requires { 40 ≤ length bytes.now }
    ensures { result ≡ Covering.covers_registers s.now (vals_in bytes.now) }
{
    covers_val_in(&s.a, bytes, 19)
        && covers_val_in(&s.b, bytes, 22)
        && covers_val_in(&s.c, bytes, 25)
        && covers_val_in(&s.d, bytes, 28)
        && covers_val_in(&s.e, bytes, 31)
        && covers_val_in(&s.h, bytes, 34)
        && covers_val_in(&s.l, bytes, 37)
}

/// Whether the value of these bytes stands for this one.
#[inline(always)]
fn covers_val_of(s: &Val, lo: u8, hi: u8, tag: u8) -> bool
    ensures { result ≡ Covering.covers_val s.now (to_val ((lo, hi), tag)) }
{
    covers_val(s, &val_of(lo, hi, tag))
}

/// Whether there are no items.
pub(crate) fn are_none(s: &[Val]) -> bool
    ensures { result ≡ Covering.covers_items s.now [] }
{
    match s {
        [] => true,
        [_, ..] => false,
    }
}

/// Whether the items that stand in bytes, three each, stand for these.
pub(crate) fn covers_items_in(s: &[Val], bytes: &[u8]) -> bool
    ensures { result ≡ Covering.covers_items s.now (listed_items bytes.now) }
{
    let [lo, hi, number, rest @ ..] = bytes else {
        return are_none(s);
    };
    match s {
        [] => false,
        [val, vals @ ..] => covers_val_of(val, *lo, *hi, *number) && covers_items_in(vals, rest),
    }
}

/// A cell by its bytes: its address, the low byte first, and its value.
#[inline(always)]
fn cell_of(low: u8, high: u8, lo: u8, hi: u8, tag: u8) -> Cell
    ensures { result ≡ cell_of low high lo hi tag }
{
    Cell {
        address: u16::from_le_bytes([low, high]),
        val: val_of(lo, hi, tag),
    }
}

/// These cells and behind them those that stand in bytes, five each. There must be room.
pub(crate) fn append_cells(cells: &mut ArrayVec<Cell, 64>, bytes: &[u8])
    requires { 5 * length cells.old.items + length bytes.now ≤ 320 }
    ensures { cells.new.items ≡ cells.old.items ++ listed_cells bytes.now }
{
    if let [low, high, lo, hi, tag, rest @ ..] = bytes {
        cells.push(cell_of(*low, *high, *lo, *hi, *tag));
        append_cells(cells, rest);
    }
}

/// Whether a value that may be is one that a bit says may be.
#[inline(always)]
fn is_allowed(may: bool, bit: u8) -> bool
    requires { bit < 2 }
    ensures { result ≡ Covering.implied may (bit == 1) }
{
    !(may && bit == 0)
}

/// Whether flags that two bytes say stand for these.
#[inline(always)]
#[tactic(auto, unfolding(crate::specs::Opened::covers_flags))]
fn covers_flags_in(s: &Flg, bits: u8, own: u8) -> bool
    ensures { result ≡ Covering.covers_flags s.now (flg_in bits own) }
{
    is_allowed(s.zero.set, bits / 128)
        && is_allowed(s.zero.clear, bits / 8 % 2)
        && is_allowed(s.subtract.set, bits / 64 % 2)
        && is_allowed(s.subtract.clear, bits / 4 % 2)
        && is_allowed(s.half_carry.set, bits / 32 % 2)
        && is_allowed(s.half_carry.clear, bits / 2 % 2)
        && is_allowed(s.carry.set, bits / 16 % 2)
        && is_allowed(s.carry.clear, bits % 2)
        && (own != 2 || s.is_own)
}

/// Whether the core at the front of bytes that have been checked, of version 4 or not, stands for what this one does, in a cartridge with
/// such a controller.
#[tactic(auto, unfolding(crate::specs::Opened::covers_core))]
pub(crate) fn covers_core_in(kind: Kind, s: &Core, is_fourth: bool, bytes: &[u8]) -> bool
    requires { 40 ≤ length bytes.now }
    ensures { result ≡ Covering.covers_core kind s.now (core_in is_fourth bytes.now) }
{
    // The length is tested once, and not at each byte.
    if bytes.len() < CORE {
        unreachable!();
    }
    covers_registers_in(&s.registers, bytes)
        && covers_flags_in(&s.flags, bytes[14], bytes[15])
        && covers_val_in(&s.ie, bytes, 16)
        && covers_ime(&s.ime, &ime_in(bytes[0]))
        && covers_controller(kind, &s.ctl, &ctl_in(is_fourth, bytes))
        && s.bound <= bytes[1]
        && (bytes[2] != 1 || s.stack_set)
}
