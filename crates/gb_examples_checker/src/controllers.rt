//! Controllers' windows, their registers after a store, and the banks that are known to be shown.

use gb_abs::span::Span;
use gb_abs_memory::shown::known_bank;
use gb_abs_memory::windows::{ControllerRegister, ctl_written, kept_after, window_of, windows};
use gb_domain::types::KeptBanks;
use gb_ops::machine::Kind;
use gb_samples::cartridges::{PLAIN, file, small};
use gb_samples::states::{CLEAR, EITHER, SET, START, from_to};
use gb_verify::{Ctl, May, Rom};
use std::test::Fail;

const BANK: ControllerRegister = ControllerRegister::Bank;

const LOW: ControllerRegister = ControllerRegister::LowBank;

const HIGH: ControllerRegister = ControllerRegister::HighBank;

fn with_bank(bank_lo: u16, bank_hi: u16) -> Ctl {
    Ctl {
        bank_lo,
        bank_hi,
        ..START
    }
}

/// The first and the last of some addresses, and the register of the window that holds them all, if one does.
type WindowRow = (Kind, u16, u16, Option<Option<ControllerRegister>>);

const WINDOWS: [WindowRow; 14] = [
    (Kind::Rom, 0x0000, 0x7FFF, Some(None)),
    (Kind::Rom, 0x7FFF, 0x8000, None),
    (
        Kind::Mbc1,
        0x0000,
        0x1FFF,
        Some(Some(ControllerRegister::Gate)),
    ),
    (Kind::Mbc1, 0x1FFF, 0x2000, None),
    (Kind::Mbc1, 0x2000, 0x3FFF, Some(Some(BANK))),
    (
        Kind::Mbc1,
        0x4000,
        0x4000,
        Some(Some(ControllerRegister::Second)),
    ),
    (
        Kind::Mbc1,
        0x6000,
        0x7FFF,
        Some(Some(ControllerRegister::Mode)),
    ),
    (Kind::Mbc3, 0x2FFF, 0x3000, Some(Some(BANK))),
    (Kind::Mbc3, 0x6000, 0x7FFF, Some(None)),
    (Kind::Mbc5, 0x2000, 0x2FFF, Some(Some(LOW))),
    (Kind::Mbc5, 0x2FFF, 0x3000, None),
    (Kind::Mbc5, 0x3000, 0x3FFF, Some(Some(HIGH))),
    (
        Kind::Mbc5,
        0x5FFF,
        0x5FFF,
        Some(Some(ControllerRegister::Second)),
    ),
    (Kind::Mbc5, 0x6000, 0x7FFF, Some(None)),
];

/// The register of the window that holds some addresses, if one does.
fn register_of(kind: Kind, at: Span) -> Option<Option<ControllerRegister>> {
    Some(window_of(kind, at)?.register)
}

#[test]
fn finds_windows(rt: HostRuntime) {
    for (kind, first, last, register) in WINDOWS {
        let found = register_of(
            kind,
            Span {
                last,
                ..Span::one(first)
            },
        );
        assert!(rt; found == register, "{first:x} to {last:x}");
    }
    assert!(rt; windows(Kind::Mbc5).len() == 5);
}

/// A kind and its register, the bytes that are stored, and the bounds of the bank before and after.
type BankRow = (Kind, ControllerRegister, (u8, u8), (u16, u16), (u16, u16));

const BANKS: [BankRow; 16] = [
    // Five bits; 0 counts as 1 once it is cut.
    (Kind::Mbc1, BANK, (0x05, 0x09), (1, 1), (5, 9)),
    (Kind::Mbc1, BANK, (0x20, 0x20), (5, 5), (1, 1)),
    (Kind::Mbc1, BANK, (0x20, 0x25), (5, 5), (1, 5)),
    (Kind::Mbc1, BANK, (0x25, 0x3F), (5, 5), (5, 31)),
    (Kind::Mbc1, BANK, (0x1E, 0x21), (5, 5), (1, 31)),
    // Seven bits.
    (Kind::Mbc3, BANK, (0x7F, 0x7F), (1, 1), (127, 127)),
    (Kind::Mbc3, BANK, (0x7F, 0x80), (1, 1), (1, 127)),
    (Kind::Mbc3, BANK, (0x80, 0x85), (9, 9), (1, 5)),
    // The low eight bits, for each bit 8 that there was.
    (Kind::Mbc5, LOW, (0x00, 0x05), (1, 1), (0, 5)),
    (Kind::Mbc5, LOW, (0x10, 0x20), (0xFE, 0x101), (0x10, 0x120)),
    (
        Kind::Mbc5,
        LOW,
        (0x10, 0x20),
        (0x101, 0x1FF),
        (0x110, 0x120),
    ),
    // Bit 8, for all low bits that there were.
    (Kind::Mbc5, HIGH, (0x01, 0x01), (5, 7), (0x105, 0x107)),
    (Kind::Mbc5, HIGH, (0x02, 0x02), (0x105, 0x107), (5, 7)),
    (Kind::Mbc5, HIGH, (0x03, 0x04), (5, 7), (5, 0x107)),
    (
        Kind::Mbc5,
        HIGH,
        (0x01, 0x01),
        (0xFE, 0x101),
        (0x100, 0x1FF),
    ),
    (Kind::Mbc5, HIGH, (0x00, 0x01), (0xFE, 0x101), (0, 0x1FF)),
];

/// The same by the rules of version 4, where each half of MBC5's bank has bounds of its own.
const HALVES: [BankRow; 7] = [
    (Kind::Mbc5, LOW, (0x10, 0x20), (0x001, 0x103), (0x10, 0x120)),
    // Bit 8, for the low eight bits 03 to 07, whatever it was.
    (
        Kind::Mbc5,
        HIGH,
        (0x01, 0x01),
        (0x003, 0x107),
        (0x103, 0x107),
    ),
    (Kind::Mbc5, HIGH, (0x02, 0x02), (0x103, 0x107), (3, 7)),
    (Kind::Mbc5, HIGH, (0x00, 0x01), (0x003, 0x107), (3, 0x107)),
    (
        Kind::Mbc5,
        HIGH,
        (0x01, 0x01),
        (0x005, 0x105),
        (0x105, 0x105),
    ),
    // No low eight bits are meant: they are any.
    (
        Kind::Mbc5,
        HIGH,
        (0x01, 0x01),
        (0xFE, 0x101),
        (0x100, 0x1FF),
    ),
    // One register.
    (Kind::Mbc3, BANK, (0x80, 0x85), (9, 9), (1, 5)),
];

/// Whether a store leaves the bank so, and all else as it was, but no longer kept by the rules of versions 1 to 3.
fn leaves_bank(row: &BankRow) -> bool {
    let (kind, register, (lo, hi), (old_lo, old_hi), (bank_lo, bank_hi)) = *row;
    let before = with_bank(old_lo, old_hi);
    let expected = Ctl {
        kept: KeptBanks::all_or_none(false),
        ..with_bank(bank_lo, bank_hi)
    };
    ctl_written(false, kind, register, &from_to(lo, hi), &before) == expected
}

/// Whether a store leaves the bank so by the rules of version 4, and all else as it was but what is kept.
fn leaves_halves(row: &BankRow) -> bool {
    let (kind, register, (lo, hi), (old_lo, old_hi), (bank_lo, bank_hi)) = *row;
    let before = with_bank(old_lo, old_hi);
    let expected = Ctl {
        kept: kept_after(true, register, before.kept),
        ..with_bank(bank_lo, bank_hi)
    };
    ctl_written(true, kind, register, &from_to(lo, hi), &before) == expected
}

#[test]
fn halves_of_the_bank_after_a_store(rt: HostRuntime) {
    for (i, row) in HALVES.iter().enumerate() {
        assert!(rt; leaves_halves(row), "half {i}");
    }
}

#[test]
fn bounds_of_banks_after_a_store(rt: HostRuntime) {
    for (i, row) in BANKS.iter().enumerate() {
        assert!(rt; leaves_bank(row), "row {i}");
    }
}

/// What a store leaves of the register that it reaches.
#[derive(Clone, Copy)]
enum Left {
    Gate(May),
    Mode(May),
    Second(u8, u8),
}

/// The bounds of the bytes that are stored.
const STORES: [(Kind, u8, u8, Left); 15] = [
    (Kind::Mbc1, 0x0A, 0x0A, Left::Gate(SET)),
    (Kind::Mbc1, 0x1A, 0x1A, Left::Gate(SET)),
    (Kind::Mbc1, 0x00, 0x09, Left::Gate(CLEAR)),
    (Kind::Mbc1, 0x0B, 0x19, Left::Gate(CLEAR)),
    (Kind::Mbc1, 0x09, 0x0A, Left::Gate(EITHER)),
    (Kind::Mbc1, 0x0B, 0x1A, Left::Gate(EITHER)),
    (Kind::Mbc1, 0x00, 0x00, Left::Mode(CLEAR)),
    (Kind::Mbc1, 0x03, 0x03, Left::Mode(SET)),
    (Kind::Mbc1, 0x02, 0x03, Left::Mode(EITHER)),
    (Kind::Mbc1, 0x03, 0x03, Left::Second(3, 3)),
    (Kind::Mbc1, 0x03, 0x04, Left::Second(0, 3)),
    (Kind::Mbc1, 0x04, 0x06, Left::Second(0, 2)),
    (Kind::Mbc3, 0x08, 0x8C, Left::Second(0x08, 0x8C)),
    (Kind::Mbc5, 0x0F, 0x10, Left::Second(0, 15)),
    (Kind::Mbc5, 0x12, 0x15, Left::Second(2, 5)),
];

/// Whether a store leaves its register so, and all else as at power-up, but no longer kept by the rules of versions 1 to 3.
fn leaves(kind: Kind, lo: u8, hi: u8, left: Left) -> bool {
    let changed = Ctl {
        kept: KeptBanks::all_or_none(false),
        ..START
    };
    let (register, expected) = match left {
        Left::Gate(gate) => (ControllerRegister::Gate, Ctl { gate, ..changed }),
        Left::Mode(mode) => (ControllerRegister::Mode, Ctl { mode, ..changed }),
        Left::Second(second_lo, second_hi) => (
            ControllerRegister::Second,
            Ctl {
                second_lo,
                second_hi,
                ..changed
            },
        ),
    };
    ctl_written(false, kind, register, &from_to(lo, hi), &START) == expected
}

#[test]
fn gate_mode_and_second_register_after_a_store(rt: HostRuntime) {
    for (i, (kind, lo, hi, left)) in STORES.iter().enumerate() {
        assert!(rt; leaves(*kind, *lo, *hi, *left), "store {i}");
    }
}

/// A register, and what a store to it leaves kept by the rules of version 4: the bank's low eight bits, the second register, the gate,
/// the mode, and the bank's bit 8.
const KEPT: [(ControllerRegister, (bool, bool, bool, bool, bool)); 6] = [
    (ControllerRegister::Gate, (true, true, false, true, true)),
    (BANK, (false, true, true, true, true)),
    (LOW, (false, true, true, true, true)),
    (HIGH, (true, true, true, true, false)),
    (ControllerRegister::Second, (true, false, true, true, true)),
    (ControllerRegister::Mode, (true, true, true, false, true)),
];

#[test]
fn registers_kept_after_a_store(rt: HostRuntime) {
    let all = KeptBanks::all_or_none(true);
    let none = KeptBanks::all_or_none(false);
    for (i, (register, expected)) in KEPT.iter().enumerate() {
        let (bank, second, gate, mode, high_bank) = *expected;
        let left = KeptBanks {
            bank,
            second,
            gate,
            mode,
            high_bank,
        };
        assert!(rt; kept_after(true, *register, all) == left, "register {i}");
        assert!(rt; kept_after(true, *register, none) == none, "register {i}");
        assert!(rt; kept_after(false, *register, all) == none, "register {i}");
    }
}

/// The bounds of the bank and of the second register, the mode, and the banks known at 0000 and at 4000.
type KnownRow = ((u16, u16), (u8, u8), May, Option<u16>, Option<u16>);

const KNOWN: [KnownRow; 9] = [
    ((5, 5), (0, 3), EITHER, None, None),
    ((5, 5), (0, 3), CLEAR, Some(0), None),
    ((5, 6), (1, 1), SET, Some(32), None),
    ((5, 5), (1, 1), SET, Some(32), Some(37)),
    ((5, 5), (1, 1), EITHER, None, Some(37)),
    ((5, 5), (0, 0), EITHER, Some(0), Some(5)),
    // Values that no controller holds: the second register 4, the banks 0 and 20h.
    ((5, 5), (4, 4), EITHER, Some(0), Some(5)),
    ((0, 0), (1, 1), CLEAR, Some(0), Some(32)),
    ((32, 32), (1, 1), CLEAR, Some(0), Some(64)),
];

fn is_known(rom: &Rom<'_>, row: &KnownRow) -> bool {
    let ((bank_lo, bank_hi), (second_lo, second_hi), mode, at_0000, at_4000) = *row;
    let ctl = Ctl {
        second_lo,
        second_hi,
        mode,
        ..with_bank(bank_lo, bank_hi)
    };
    known_bank(rom, &ctl, 0x0000) == at_0000 && known_bank(rom, &ctl, 0x4000) == at_4000
}

/// MBC1 with 128 banks.
#[test]
fn banks_of_mbc1_are_known(rt: HostRuntime) -> Result<(), Fail> {
    let bytes = file(rt.alloc(), 0x200000, [0x01, 0x06, 0x00], &[])?;
    let rom = Rom::parse(bytes.as_slice())?;
    for (i, row) in KNOWN.iter().enumerate() {
        assert!(rt; is_known(&rom, row), "row {i}");
    }
    Ok(())
}

/// The bounds of MBC5's bank, and the bank that is known at 4000.
const LARGE: [(u16, u16, Option<u16>); 3] = [
    (511, 511, Some(511)),
    (0, 0, Some(0)),
    (510, 511, None),
];

/// Addresses, and the banks known there without a controller.
const FLAT: [(u16, u16); 5] = [
    (0x3FFF, 0),
    (0x4000, 1),
    (0x7FFF, 1),
    (0x8000, 0),
    (0xFFFF, 0),
];

/// MBC5 with 512 banks shows bank 0 at 4000 too.
#[test]
fn banks_of_mbc5_are_known(rt: HostRuntime) -> Result<(), Fail> {
    let bytes = file(rt.alloc(), 0x800000, [0x19, 0x08, 0x00], &[])?;
    let rom = Rom::parse(bytes.as_slice())?;
    for (i, (bank_lo, bank_hi, shown)) in LARGE.iter().enumerate() {
        let ctl = with_bank(*bank_lo, *bank_hi);
        assert!(rt; known_bank(&rom, &ctl, 0x4000) == *shown, "row {i}");
        assert!(rt; known_bank(&rom, &ctl, 0x3FFF) == Some(0), "row {i}");
    }
    Ok(())
}

/// Without a controller it is bank 1, and RAM has bank 0.
#[test]
fn banks_without_a_controller_are_known(rt: HostRuntime) -> Result<(), Fail> {
    let bytes = small(PLAIN, &[]);
    let rom = Rom::parse(&bytes)?;
    let ctl = with_bank(3, 9);
    for (i, (address, shown)) in FLAT.iter().enumerate() {
        assert!(rt; known_bank(&rom, &ctl, *address) == Some(*shown), "row {i}");
    }
    Ok(())
}
