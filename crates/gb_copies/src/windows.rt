//! The two windows of a controller whose registers variables shadow.

ghost use Rattle.std.specs.Prelude.{◌≡◌, ◌≤◌};
ghost use Rattle.gb_copies.specs.Windows as Windows;

use gb_ops::machine::Kind;

/// A window of the controller (Pan Docs: MBCs). MBC5 has its bank's low eight bits in the first, and bit 8 in the second; MBC1 and
/// MBC3 have the bank in the first, and the RAM bank or the high bits in the second.
#[derive(Clone, Copy)]
pub enum BankWindow {
    First,
    Second,
}

/// Whether there is a controller.
pub fn has_windows(kind: Kind) -> bool
    ensures { result ≡ Windows.has_windows kind }
{
    match kind {
        Kind::Rom => false,
        Kind::Mbc1 | Kind::Mbc3 | Kind::Mbc5 => true,
    }
}

/// Whether an address lies in the window.
#[tactic(auto, unfolding(crate::specs::Windows::is_in_window))]
pub fn is_in_window(kind: Kind, window: BankWindow, address: u16) -> bool
    ensures { result ≡ Windows.is_in_window kind window address }
{
    match (kind, window) {
        (Kind::Rom, _) => false,
        (Kind::Mbc5, BankWindow::First) => 0x2000 <= address && address <= 0x2FFF,
        (Kind::Mbc5, BankWindow::Second) => 0x3000 <= address && address <= 0x3FFF,
        (_, BankWindow::First) => 0x2000 <= address && address <= 0x3FFF,
        (_, BankWindow::Second) => 0x4000 <= address && address <= 0x5FFF,
    }
}

/// How many low bits of a byte the register takes.
pub(crate) fn register_bits(kind: Kind, window: BankWindow) -> u8
    ensures bits { result ≡ Windows.register_bits kind window }
    ensures few { result ≤ 8 }
{
    match (kind, window) {
        (Kind::Mbc1, BankWindow::First) => 5,
        (Kind::Mbc1, BankWindow::Second) => 2,
        (Kind::Mbc3, BankWindow::First) => 7,
        (Kind::Mbc5, BankWindow::Second) => 1,
        _ => 8,
    }
}

/// Whether 0 counts as 1 in the register.
pub(crate) fn counts_from_one(kind: Kind, window: BankWindow) -> bool
    ensures { result ≡ Windows.counts_from_one kind window }
{
    matches!((kind, window), (Kind::Mbc1 | Kind::Mbc3, BankWindow::First))
}

/// What a byte leaves in the register, stored into the window.
#[tactic(auto, unfolding(crate::specs::Windows::left_by))]
pub fn left_by(kind: Kind, window: BankWindow, byte: u8) -> u8
    ensures { result ≡ Windows.left_by kind window byte }
{
    let number = (u16::from(byte) % (1 << register_bits(kind, window))) as u8;
    if counts_from_one(kind, window) {
        number.max(1)
    } else {
        number
    }
}

/// The law of the windows: a store leaves in a window's register what its byte leaves, and a store elsewhere leaves the register.
#[tactic(auto, using(crate::proofs::WindowLaws::stores_leave, crate::proofs::WindowLaws::other_stores_stay))]
pub fn windows_are_written()
    ensures leaves { Windows.StoresLeave }
    ensures stays { Windows.OtherStoresStay }
{}
