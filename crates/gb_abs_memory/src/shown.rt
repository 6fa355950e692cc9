//! The ROM bank that a controller shows, where it is known.

ghost use Rattle.std.specs.Prelude.{◌≡◌, ◌*◌, ◌^◌, ◌<◌, ◌≤◌, ℕ, IfSome, None, slice_index};
ghost use Rattle.gb_ops.specs.Cartridge as Cartridge;
ghost use Rattle.gb_domain.specs.Rules.{IsCtl};
ghost use Rattle.gb_abs_memory.specs.Shown as Shown;

use gb_domain::types::Ctl;
use gb_header::Rom;
use gb_ops::machine::Kind;

/// Whether 32 times the second register, cut to so many banks, is one number.
fn is_second_known(banks: u16, ctl: &Ctl) -> bool
    ensures { result ≡ Shown.is_second_known banks ctl.now }
{
    banks <= 32 || ctl.second_lo == ctl.second_hi
}

/// The bank at 0000-3FFF. Only MBC1's mode 1 shows another than bank 0.
#[tactic(auto, unfolding(crate::specs::Shown::known_low_bank))]
pub(crate) fn known_low_bank(kind: Kind, banks: u16, ctl: &Ctl) -> Option<u16>
    requires { 0 < banks }
    ensures known { result ≡ Shown.known_low_bank kind banks ctl.now }
    ensures below { IfSome result (λ bank. bank < banks) }
{
    if kind != Kind::Mbc1 || !ctl.mode.set {
        return Some(0);
    }
    let bank = 32 * ctl.second_lo as u16 % banks;
    if is_second_known(banks, ctl) && (!ctl.mode.clear || bank == 0) {
        Some(bank)
    } else {
        None
    }
}

/// The bank at 4000-7FFF.
#[tactic(auto, unfolding(crate::specs::Shown::known_high_bank))]
pub(crate) fn known_high_bank(kind: Kind, banks: u16, ctl: &Ctl) -> Option<u16>
    requires { 0 < banks }
    ensures known { result ≡ Shown.known_high_bank kind banks ctl.now }
    ensures below { IfSome result (λ bank. bank < banks) }
{
    let is_single = ctl.bank_lo == ctl.bank_hi;
    match kind {
        Kind::Rom => Some(1 % banks),
        Kind::Mbc1 if is_single && is_second_known(banks, ctl) => {
            let number = 32 * ctl.second_lo as u32 + ctl.bank_lo as u32;
            Some((number % banks as u32) as u16)
        }
        Kind::Mbc3 | Kind::Mbc5 if is_single => Some(ctl.bank_lo % banks),
        Kind::Mbc1 | Kind::Mbc3 | Kind::Mbc5 => None,
    }
}

/// The bank shown, by the cartridge's kind and size.
#[tactic(auto, unfolding(crate::specs::Shown::known_bank))]
fn shown(rom: &Rom<'_>, ctl: &Ctl, address: u16) -> Option<u16>
    ensures known { result ≡ Shown.known_bank rom.now ctl.now address }
    ensures power { Cartridge.rom_banks rom.now ≡ 2 * 2 ^ slice_index rom.now 0x148 }
    ensures most { Cartridge.rom_banks rom.now ≤ 512 }
    ensures below { address < 0x8000 → IfSome result (λ bank. bank < Cartridge.rom_banks rom.now) }
{
    let banks = rom.banks();
    match address {
        0x0000..=0x3FFF => known_low_bank(rom.kind(), banks, ctl),
        0x4000..=0x7FFF => known_high_bank(rom.kind(), banks, ctl),
        0x8000..=0xFFFF => Some(0),
    }
}

/// The ROM bank shown at an address below 8000, where it is the same whatever the controller's
/// registers are within the bounds and sets, values that the controller can't hold included. RAM
/// has bank 0.
#[tactic(auto, using(crate::proofs::ShownLaws::shown_laws))]
pub fn known_bank(rom: &Rom<'_>, ctl: &Ctl, address: u16) -> Option<u16>
    ensures exact { result ≡ Shown.known_bank rom.now ctl.now address }
    ensures sound { address < 0x8000 → IfSome result (λ bank. Shown.AllShow rom.now ctl.now address bank) }
    ensures complete { address < 0x8000 → IsCtl ctl.now → result ≡ None → (bank : ℕ) → Shown.AllShow rom.now ctl.now address bank → ⊥ }
    ensures below { address < 0x8000 → IfSome result (λ bank. bank < Cartridge.rom_banks rom.now) }
{
    shown(rom, ctl, address)
}
