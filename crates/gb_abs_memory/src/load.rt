//! Loads of abstract states: by the rules of version 3, of items by their address and of tables in ROM too.

ghost use Rattle.std.specs.Prelude.{◌≡◌, ◌<◌, ◌≤◌, ◌+◌, ℕ, IfSome, IfOk, slice_index};
ghost use Rattle.std.specs.List.{AllByRecursion};
ghost use Rattle.gb_ops.specs.Cartridge as Cartridge;
ghost use Rattle.gb_abs.specs.Operations.{with_core};
ghost use Rattle.gb_abs_memory.specs.Access as Access;
ghost use Rattle.gb_domain.specs.Rules.{IsVal};
ghost use Rattle.gb_abs_memory.specs.Sound.{AreVals, IsRom, IsSoundLoad};

use crate::refusals::{is_limited, meets_closed_ram};
use crate::shown::known_bank;
use gb_abs::covering::cell_at;
use gb_abs::located::item_at;
use gb_abs::reason::Reason;
use gb_abs::span::Span;
use gb_abs::storage::is_ram;
use gb_abs::{any, single};
use gb_domain::types::{Abs, Core, Rules, Setting, Val};
use gb_header::Rom;

/// Where the byte at an address is kept: the echo of work RAM is the same byte.
pub fn home_of(address: u16) -> u16
    ensures { result ≡ Access.home_of address }
{
    match address {
        0xE000..=0xFDFF => address - 0x2000,
        _ => address,
    }
}

/// The byte of ROM in this bank; any, where the bank isn't known.
fn rom_val(rom: &Rom<'_>, address: u16, bank: Option<u16>) -> Val
    requires { IfSome bank (λ b. b < Cartridge.rom_banks rom.now) }
    ensures { result ≡ Access.rom_val rom.now address bank }
{
    match bank {
        Some(bank) => single(rom.byte(bank, address)),
        None => any(),
    }
}

/// What is known of the byte at an address, where no OAM transfer closes it, in states with another core.
#[tactic(auto, unfolding(crate::specs::Access::val_at))]
fn val_by(rom: &Rom<'_>, core: &Core, state: &Abs, address: u16) -> Val
    ensures { result ≡ Access.val_at rom.now (with_core state.now core.now) address }
{
    if address < 0x8000 {
        return rom_val(rom, address, known_bank(rom, &core.ctl, address));
    }
    let home = home_of(address);
    if is_ram(home) {
        cell_at(home, state.cells())
    } else if address == 0xFFFF {
        core.ie
    } else {
        any()
    }
}

/// What is known of the byte at an address, where no OAM transfer closes it.
pub fn val_at(rom: &Rom<'_>, state: &Abs, address: u16) -> Val
    ensures { result ≡ Access.val_at rom.now state.now address }
{
    val_by(rom, state.core(), state, address)
}

/// What is known of the byte at an address of a load, in states with another core: an item of RAM, or what is known there else.
#[tactic(auto, unfolding(crate::specs::Access::val_or_item))]
fn val_or_item(setting: Setting, rom: &Rom<'_>, core: &Core, state: &Abs, address: u16) -> Val
    ensures { result ≡ Access.val_or_item setting rom.now (with_core state.now core.now) address }
{
    if is_ram(address) {
        match item_at(setting, core, state, address) {
            Some(item) => item,
            None => val_by(rom, core, state, address),
        }
    } else {
        val_by(rom, core, state, address)
    }
}

/// Whether these are at most 256 addresses of one half of ROM.
#[tactic(auto, unfolding(crate::specs::Access::is_table))]
pub fn is_table(span: Span) -> bool
    ensures { result ≡ Access.is_table span }
{
    span.first <= span.last
        && (span.is_inside(0x0000, 0x3FFF) || span.is_inside(0x4000, 0x7FFF))
        && span.last - span.first <= 255
}

/// The least interval that holds another one and a byte.
fn joined(val: Val, byte: u8) -> Val
    ensures { result ≡ Access.joined val byte }
{
    let lo = if byte < val.lo { byte } else { val.lo };
    let hi = if val.hi < byte { byte } else { val.hi };
    Val {
        lo,
        hi,
        low_bits: 0,
        origin: None,
    }
}

/// The least interval that holds a byte of a bank, and so many behind it.
fn table(rom: &Rom<'_>, bank: u16, address: u16, more: u16) -> Val
    requires bank { bank < Cartridge.rom_banks rom.now }
    requires addresses { address + more < 0x8000 }
    ensures { result ≡ Access.table rom.now bank address more }
{
    if more == 0 {
        single(rom.byte(bank, address))
    } else {
        let before = table(rom, bank, address, more - 1);
        joined(before, rom.byte(bank, address + more))
    }
}

/// What is known of one of several bytes of ROM.
fn table_by(rom: &Rom<'_>, bank: Option<u16>, span: Span) -> Val
    requires bank { IfSome bank (λ b. b < Cartridge.rom_banks rom.now) }
    requires order { span.first ≤ span.last }
    requires addresses { span.last < 0x8000 }
    ensures { result ≡ Access.table_by bank rom.now span }
{
    let Some(bank) = bank else {
        return any();
    };
    table(rom, bank, span.first, span.last - span.first)
}

/// What is known of the byte at one of several addresses.
#[tactic(auto, unfolding(crate::specs::Access::is_table))]
fn several_by(rules: Rules, rom: &Rom<'_>, core: &Core, span: Span) -> Val
    ensures { result ≡ Access.several_by rules rom.now core.now span }
{
    match rules {
        Rules::Simple => any(),
        Rules::Extended => {
            if is_table(span) {
                table_by(rom, known_bank(rom, &core.ctl, span.first), span)
            } else {
                any()
            }
        }
    }
}

/// What is known of the byte that a load gives, in states with another core. What refuses the load is asked apart.
#[tactic(auto, unfolding(crate::specs::Access::loaded_val))]
pub fn loaded_by(setting: Setting, rom: &Rom<'_>, core: &Core, state: &Abs, span: Span) -> Val
    ensures { result ≡ Access.loaded_val setting rom.now (with_core state.now core.now) span }
{
    if span.is_one() {
        val_or_item(setting, rom, core, state, span.first)
    } else {
        several_by(setting.rules, rom, core, span)
    }
}

/// What is known of the byte that a load gives.
pub fn loaded_val(setting: Setting, rom: &Rom<'_>, state: &Abs, span: Span) -> Val
    ensures { result ≡ Access.loaded_val setting rom.now state.now span }
{
    loaded_by(setting, rom, state.core(), state, span)
}

/// The lowest reason against a load.
#[tactic(auto, unfolding(crate::specs::Access::load_reason))]
fn load_reason(rom: &Rom<'_>, core: &Core, span: Span) -> Option<Reason>
    ensures { result ≡ Access.load_reason rom.now core.now span }
{
    if meets_closed_ram(rom, core, span) {
        Some(Reason::CartridgeRam)
    } else if is_limited(core, span) {
        Some(Reason::OamTransfer)
    } else {
        None
    }
}

/// What is known of the byte that is loaded, or the lowest reason against the load.
#[tactic(auto, unfolding(crate::specs::Access::load))]
fn loaded_or_reason(setting: Setting, rom: &Rom<'_>, state: &Abs, span: Span) -> Result<Val, Reason>
    ensures { result ≡ Access.load setting rom.now state.now span }
{
    match load_reason(rom, state.core(), span) {
        Some(reason) => Err(reason),
        None => Ok(loaded_val(setting, rom, state, span)),
    }
}

/// What is known of the byte that a load from one of these addresses gives (Memory map; own).
///
/// # Errors
///
/// The lowest reason against the load: cartridge RAM that may be closed, or an OAM transfer.
#[tactic(auto, using(crate::proofs::LoadLaws::load_laws))]
pub fn load(setting: Setting, rom: &Rom<'_>, state: &Abs, span: Span) -> Result<Val, Reason>
    ensures exact { result ≡ Access.load setting rom.now state.now span }
    ensures sound { IfOk result (λ val. IsSoundLoad setting rom.now state.now span val) }
    ensures inhabited { IsVal state.now.core.ie → AreVals state.now.cells → AllByRecursion IsVal state.now.items → ((i : ℕ) → slice_index rom.now i ≤ 255) → IfOk result IsVal }
{
    loaded_or_reason(setting, rom, state, span)
}

fn are_bytes(bytes: &[u8])
    ensures { (i : ℕ) → slice_index bytes.now i ≤ 255 }
{}

/// States of a cartridge that it holds bytes, of a number of banks that a cartridge may have.
pub fn holds_bytes(rom: &Rom<'_>)
    ensures { IsRom rom.now }
{
    are_bytes(rom.bytes());
}
