//! The windows of a controller's registers, and what a store there leaves.

ghost use Rattle.std.specs.Prelude.{◌≡◌, ◌<◌, ◌≤◌};
ghost use Rattle.gb_domain.specs.Rules.{IsVal, IsCtl};
ghost use Rattle.gb_abs_memory.specs.Windows as Windows;

use gb_abs::span::Span;
use gb_domain::types::{Ctl, KeptBanks, May, Val};
use gb_ops::machine::Kind;

/// The registers of controllers that a store reaches. MBC5's bank has two windows.
#[derive(Clone, Copy, PartialEq, Eq)]
pub enum ControllerRegister {
    Gate,
    /// The whole bank of MBC1 and MBC3.
    Bank,
    /// The low eight bits of MBC5's bank.
    LowBank,
    /// Bit 8 of MBC5's bank.
    HighBank,
    Second,
    Mode,
}

/// Addresses where all stores reach one register, or none.
#[derive(Clone, Copy, PartialEq, Eq)]
pub struct Window {
    pub first: u16,
    pub last: u16,
    pub register: Option<ControllerRegister>,
}

const FLAT: [Window; 1] = [Window {
    first: 0x0000,
    last: 0x7FFF,
    register: None,
}];

const GATE: Window = Window {
    first: 0x0000,
    last: 0x1FFF,
    register: Some(ControllerRegister::Gate),
};

const BANK: Window = Window {
    first: 0x2000,
    last: 0x3FFF,
    register: Some(ControllerRegister::Bank),
};

const SECOND: Window = Window {
    first: 0x4000,
    last: 0x5FFF,
    register: Some(ControllerRegister::Second),
};

const MODE: Window = Window {
    first: 0x6000,
    last: 0x7FFF,
    register: Some(ControllerRegister::Mode),
};

const REST: Window = Window {
    first: 0x6000,
    last: 0x7FFF,
    register: None,
};

const LOW_BANK: Window = Window {
    first: 0x2000,
    last: 0x2FFF,
    register: Some(ControllerRegister::LowBank),
};

const HIGH_BANK: Window = Window {
    first: 0x3000,
    last: 0x3FFF,
    register: Some(ControllerRegister::HighBank),
};

/// The windows of a controller, from the lowest address on; together they are 0000-7FFF.
#[tactic(auto, unfolding(crate::specs::Windows::windows))]
pub fn windows(kind: Kind) -> &'static [Window]
    ensures { result.now ≡ Windows.windows kind }
{
    match kind {
        Kind::Rom => &FLAT,
        Kind::Mbc1 => &[GATE, BANK, SECOND, MODE],
        Kind::Mbc3 => &[GATE, BANK, SECOND, REST],
        Kind::Mbc5 => &[GATE, LOW_BANK, HIGH_BANK, SECOND, REST],
    }
}

/// The window that all of these addresses lie in.
#[tactic(auto, unfolding(crate::specs::Windows::window_of))]
pub fn window_of(kind: Kind, span: Span) -> Option<Window>
    ensures { result ≡ Windows.window_of kind span }
{
    windows(kind)
        .iter()
        .copied()
        .find(|window| span.is_inside(window.first, window.last))
}

/// The least of the numbers from `lo` to `hi`, each cut to `count` values.
#[tactic(auto, unfolding(crate::specs::Windows::cut_least))]
fn cut_least(count: u16, lo: u16, hi: u16) -> u16
    requires { 0 < count }
    ensures least { result ≡ Windows.cut_least count lo hi }
    ensures below { result < count }
{
    if lo / count == hi / count {
        lo % count
    } else {
        0
    }
}

/// The greatest of the numbers from `lo` to `hi`, each cut to `count` values.
#[tactic(auto, unfolding(crate::specs::Windows::cut_most))]
fn cut_most(count: u16, lo: u16, hi: u16) -> u16
    requires { 0 < count }
    ensures most { result ≡ Windows.cut_most count lo hi }
    ensures below { result < count }
{
    if lo / count == hi / count {
        hi % count
    } else {
        count - 1
    }
}

/// Whether one of these bytes has the rest `rest`, divided by `count`.
#[tactic(auto, unfolding(crate::specs::Windows::has_rest))]
fn has_rest(count: u16, rest: u16, val: &Val) -> bool
    requires count { 0 < count }
    requires small { count ≤ 16 }
    requires rest { rest < count }
    ensures { result ≡ Windows.has_rest count rest val.now }
{
    let lo = val.lo as u16;
    lo + (count + rest - lo % count) % count <= val.hi as u16
}

/// Whether one of these bytes has another rest than `rest`, divided by `count`.
#[tactic(auto, unfolding(crate::specs::Windows::has_other_rest))]
fn has_other_rest(count: u16, rest: u16, val: &Val) -> bool
    requires { 0 < count }
    ensures { result ≡ Windows.has_other_rest count rest val.now }
{
    val.lo < val.hi || val.lo as u16 % count != rest
}

/// How many values the bank register of MBC1 and MBC3 holds (MBCs).
fn bank_values(kind: Kind) -> u16
    ensures values { result ≡ Windows.bank_values kind }
    ensures some { 0 < result }
    ensures few { result ≤ 256 }
{
    match kind {
        Kind::Mbc1 => 32,
        Kind::Rom | Kind::Mbc3 | Kind::Mbc5 => 128,
    }
}

/// How many values the second register holds (MBCs).
fn second_values(kind: Kind) -> u16
    ensures values { result ≡ Windows.second_values kind }
    ensures some { 0 < result }
    ensures few { result ≤ 256 }
{
    match kind {
        Kind::Mbc1 => 4,
        Kind::Mbc5 => 16,
        Kind::Rom | Kind::Mbc3 => 256,
    }
}

/// The gate opens where the low four bits are A.
fn gate_after(val: &Val) -> May
    ensures { result ≡ Windows.gate_after val.now }
{
    May {
        clear: has_other_rest(16, 10, val),
        set: has_rest(16, 10, val),
    }
}

/// The mode is bit 0.
fn mode_after(val: &Val) -> May
    ensures { result ≡ Windows.mode_after val.now }
{
    May {
        clear: has_rest(2, 0, val),
        set: has_rest(2, 1, val),
    }
}

/// The bank of MBC1 and MBC3, where 0 counts as 1 once it is cut.
fn bank_after(count: u16, val: &Val, ctl: &Ctl) -> Ctl
    requires { 0 < count }
    ensures { result ≡ Windows.bank_after count val.now ctl.now }
{
    let (lo, hi) = (val.lo as u16, val.hi as u16);
    Ctl {
        bank_lo: cut_least(count, lo, hi).max(1),
        bank_hi: cut_most(count, lo, hi).max(1),
        ..*ctl
    }
}

/// MBC5's bank with other low bits, for each bit 8 that it may have had.
fn low_bank_after(val: &Val, ctl: &Ctl) -> Ctl
    ensures { result ≡ Windows.low_bank_after val.now ctl.now }
{
    Ctl {
        bank_lo: ctl.bank_lo / 256 * 256 + val.lo as u16,
        bank_hi: ctl.bank_hi / 256 * 256 + val.hi as u16,
        ..*ctl
    }
}

/// MBC5's bank with another bit 8, for all low bits that it may have had.
fn high_bank_after(val: &Val, ctl: &Ctl) -> Ctl
    ensures { result ≡ Windows.high_bank_after val.now ctl.now }
{
    let (lo, hi) = (val.lo as u16, val.hi as u16);
    Ctl {
        bank_lo: cut_least(2, lo, hi) * 256 + cut_least(256, ctl.bank_lo, ctl.bank_hi),
        bank_hi: cut_most(2, lo, hi) * 256 + cut_most(256, ctl.bank_lo, ctl.bank_hi),
        ..*ctl
    }
}

/// The second register, cut to the bits that it has.
fn second_after(count: u16, val: &Val, ctl: &Ctl) -> Ctl
    requires some { 0 < count }
    requires few { count ≤ 256 }
    ensures { result ≡ Windows.second_after count val.now ctl.now }
{
    let (lo, hi) = (val.lo as u16, val.hi as u16);
    Ctl {
        second_lo: cut_least(count, lo, hi) as u8,
        second_hi: cut_most(count, lo, hi) as u8,
        ..*ctl
    }
}

/// Each register's new bounds or set.
#[tactic(auto, unfolding(crate::specs::Windows::ctl_after))]
fn written(kind: Kind, register: ControllerRegister, val: &Val, ctl: &Ctl) -> Ctl
    ensures { result ≡ Windows.ctl_after kind register val.now ctl.now }
{
    match register {
        ControllerRegister::Gate => Ctl {
            gate: gate_after(val),
            ..*ctl
        },
        ControllerRegister::Bank => bank_after(bank_values(kind), val, ctl),
        ControllerRegister::LowBank => low_bank_after(val, ctl),
        ControllerRegister::HighBank => high_bank_after(val, ctl),
        ControllerRegister::Second => second_after(second_values(kind), val, ctl),
        ControllerRegister::Mode => Ctl {
            mode: mode_after(val),
            ..*ctl
        },
    }
}

/// The least and the greatest low eight bits of MBC5's bank, where they have bounds of their own: any where these are out of order.
#[tactic(auto, unfolding(crate::specs::Windows::low_bank_least, crate::specs::Windows::low_bank_most))]
pub fn low_ends(ctl: &Ctl) -> (u8, u8)
    ensures { result ≡ (Windows.low_bank_least ctl.now, Windows.low_bank_most ctl.now) }
{
    let (lo, hi) = ((ctl.bank_lo % 256) as u8, (ctl.bank_hi % 256) as u8);
    if lo <= hi { (lo, hi) } else { (0, 255) }
}

/// MBC5's bank with another bit 8, where its low eight bits have bounds of their own.
fn high_half_after(val: &Val, ctl: &Ctl) -> Ctl
    ensures { result ≡ Windows.high_half_after val.now ctl.now }
{
    let (lo, hi) = (val.lo as u16, val.hi as u16);
    let (low_least, low_most) = low_ends(ctl);
    Ctl {
        bank_lo: cut_least(2, lo, hi) * 256 + u16::from(low_least),
        bank_hi: cut_most(2, lo, hi) * 256 + u16::from(low_most),
        ..*ctl
    }
}

/// All that is kept but a register.
fn kept_but(register: ControllerRegister, kept: KeptBanks) -> KeptBanks
    ensures { result ≡ Windows.kept_but register kept }
{
    match register {
        ControllerRegister::Gate => KeptBanks {
            gate: false,
            ..kept
        },
        ControllerRegister::Bank | ControllerRegister::LowBank => KeptBanks {
            bank: false,
            ..kept
        },
        ControllerRegister::HighBank => KeptBanks {
            high_bank: false,
            ..kept
        },
        ControllerRegister::Second => KeptBanks {
            second: false,
            ..kept
        },
        ControllerRegister::Mode => KeptBanks {
            mode: false,
            ..kept
        },
    }
}

fn kept_by(is_whole: bool, register: ControllerRegister, kept: KeptBanks) -> KeptBanks
    ensures { result ≡ Windows.kept_after is_whole register kept }
{
    if is_whole {
        kept_but(register, kept)
    } else {
        KeptBanks::all_or_none(false)
    }
}

/// What is kept after a store to a register, even where no value changes: by the rules of version 4 (`is_whole`) all else that was,
/// by those of the others nothing.
#[tactic(auto, using(crate::proofs::ControllerLaws::kept_after_sound))]
pub fn kept_after(is_whole: bool, register: ControllerRegister, kept: KeptBanks) -> KeptBanks
    ensures exact { result ≡ Windows.kept_after is_whole register kept }
    ensures sound { Windows.IsSoundKeeping is_whole register kept result }
{
    kept_by(is_whole, register, kept)
}

fn is_high(register: ControllerRegister) -> bool
    ensures { result ≡ Windows.is_high register }
{
    matches!(register, ControllerRegister::HighBank)
}

fn written_by(is_whole: bool, kind: Kind, register: ControllerRegister, val: &Val, ctl: &Ctl) -> Ctl
    ensures { result ≡ Windows.ctl_written is_whole kind register val.now ctl.now }
{
    Ctl {
        kept: kept_after(is_whole, register, ctl.kept),
        ..ctl_by(is_whole, kind, register, val, ctl)
    }
}

/// The controller's registers after a store of any of these bytes to one of them: by the rules of version 4 (`is_whole`) the halves of
/// MBC5's bank have bounds of their own, by those of the others the whole bank has.
#[tactic(auto, unfolding(crate::specs::Windows::ctl_by))]
fn ctl_by(is_whole: bool, kind: Kind, register: ControllerRegister, val: &Val, ctl: &Ctl) -> Ctl
    ensures { result ≡ Windows.ctl_by is_whole kind register val.now ctl.now }
{
    if is_whole && is_high(register) {
        high_half_after(val, ctl)
    } else {
        ctl_after(kind, register, val, ctl)
    }
}

/// The controller after a store of any of these bytes to one of its registers: its registers, and what is kept (`kept_after`).
#[tactic(auto, using(crate::proofs::ControllerLaws::ctl_written_sound))]
pub fn ctl_written(
    is_whole: bool,
    kind: Kind,
    register: ControllerRegister,
    val: &Val,
    ctl: &Ctl,
) -> Ctl
    ensures exact { result ≡ Windows.ctl_written is_whole kind register val.now ctl.now }
    ensures sound { Windows.IsSoundWriting is_whole kind register val.now ctl.now result }
{
    written_by(is_whole, kind, register, val, ctl)
}

/// The controller's registers after a store of any of these bytes to one of them: the least bounds
/// and sets that hold its new value, whatever the registers were. The other registers stay, and so does what is said of what is kept.
#[tactic(auto, using(crate::proofs::ControllerLaws::ctl_after_laws))]
pub fn ctl_after(kind: Kind, register: ControllerRegister, val: &Val, ctl: &Ctl) -> Ctl
    ensures exact { result ≡ Windows.ctl_after kind register val.now ctl.now }
    ensures sound { Windows.IsSoundWrite kind register val.now ctl.now result }
    ensures least { IsVal val.now → IsCtl ctl.now → Windows.IsLeastWrite kind register val.now ctl.now result }
    ensures valid { IsVal val.now → IsCtl ctl.now → IsCtl result }
    ensures alone { Windows.IsWrittenAlone register ctl.now result }
{
    written(kind, register, val, ctl)
}
