//! Shadows of the controller's registers: a variable with the current bank.

use gb_copies::bank_covering::covers;
use gb_copies::bank_returned::returned;
use gb_copies::fitting::fitting;
use gb_copies::shadows::{
    copied_to_address, copied_to_register, stored, without_addresses, without_register,
};
use gb_copies::windows::{is_in_window, left_by};
use gb_copies::{BankWindow, Known, Preserved};
use gb_domain::StridedInterval;
use gb_domain::pairs::Bounds;
use gb_domain::places::{NO_REGISTER, OneByte, Place};
use gb_domain::summary::Shadows;
use gb_ops::machine::Kind;
use gb_ops::op::Register;
use gb_ops::registers::Registers;
use std::process::Abort;

const A: Registers<bool> = Registers {
    a: true,
    ..NO_REGISTER
};

const B: Registers<bool> = Registers {
    b: true,
    ..NO_REGISTER
};

const A_AND_B: Registers<bool> = Registers { b: true, ..A };

/// hCurrentBank.
const SHADOW: u16 = 0xFF80;

/// Registers, and an address, that shadow the register.
type Places = (Registers<bool>, Option<u16>);

const IN_VARIABLE: Places = (NO_REGISTER, Some(SHADOW));

const NOWHERE: Places = (NO_REGISTER, None);

fn shadows(places: Places) -> Shadows {
    let (registers, address) = places;
    Shadows { registers, address }
}

/// The bytes from the first to the second, each 2^n-th for the third.
type Bytes = (u8, u8, u8);

const ANY: Bytes = (0, 255, 0);

fn interval(bytes: Bytes) -> StridedInterval {
    let (lo, hi, count) = bytes;
    StridedInterval { lo, hi, count }
}

/// What is known of A and of the byte at the variable, and the bank's bounds.
type KnownBytes = (Bytes, Bytes, u16, u16);

fn known(facts: KnownBytes) -> Known {
    let (a, memory, first, last) = facts;
    let any = interval(ANY);
    Known {
        registers: Registers {
            a: interval(a),
            b: any,
            c: any,
            d: any,
            e: any,
            h: any,
            l: any,
        },
        memory: interval(memory),
        bounds: Bounds { first, last },
    }
}

#[derive(Clone, Copy)]
enum ShadowStep {
    /// What a byte leaves in the register.
    Leaves(Kind, BankWindow, u8, u8),
    InWindow(Kind, BankWindow, u16, bool),
    WriteA(Places, Places),
    WriteMemory(u16, u16, Places, Places),
    /// LD A,(n16) and LD (n16),A.
    LoadA(u16, Places, Places),
    StoreA(u16, Places, Places),
    /// A is stored into the window, or a number; these registers and the variable hold one byte.
    Switch(Registers<bool>, Places),
    SwitchToNumber(Registers<bool>, Places),
    /// The bank's bounds, with places that hold these bytes.
    Fits(Kind, Bytes, u16, u16, Option<(u16, u16)>),
    /// With two places.
    FitsBoth(Kind, Bytes, Bytes, u16, u16, Option<(u16, u16)>),
    Covers(Kind, KnownBytes, Places, Places, bool),
    /// A routine that kept the bank or not, A or not, and the byte at the variable or not: its exit's, the caller's, and those left.
    Return(bool, bool, bool, Places, Places, Places),
}

use ShadowStep::{
    Covers, Fits, FitsBoth, InWindow, Leaves, LoadA, Return, StoreA, Switch, SwitchToNumber,
    WriteA, WriteMemory,
};

fn are_same(left: Shadows, places: Places) -> bool {
    let (registers, address) = places;
    left.registers == registers && left.address == address
}

fn one_byte(registers: Registers<bool>) -> OneByte {
    OneByte {
        registers,
        address: Some(SHADOW),
        test: None,
    }
}

fn fits(kind: Kind, places: &[StridedInterval], first: u16, last: u16) -> Option<(u16, u16)> {
    let bounds = fitting(kind, BankWindow::First, places, Bounds { first, last })?;
    Some((bounds.first, bounds.last))
}

fn returns(window: bool, a: bool, address: bool, exit: Places, caller: Places) -> Shadows {
    let kept = Preserved {
        window,
        registers: if a { A } else { NO_REGISTER },
        address,
    };
    returned(&kept, &shadows(exit), &shadows(caller))
}

fn covers_first(kind: Kind, facts: KnownBytes, places: Places, wanted: Places) -> bool {
    let (have, wanted) = (shadows(places), shadows(wanted));
    covers(kind, BankWindow::First, &known(facts), &have, &wanted)
}

fn agrees(step: &ShadowStep) -> bool {
    match *step {
        Leaves(kind, window, byte, result) => left_by(kind, window, byte) == result,
        InWindow(kind, window, address, result) => is_in_window(kind, window, address) == result,
        WriteA(before, after) => are_same(without_register(Register::A, &shadows(before)), after),
        WriteMemory(first, last, before, after) => {
            are_same(without_addresses(first, last, &shadows(before)), after)
        }
        LoadA(from, before, after) => are_same(
            copied_to_register(Register::A, Place::Address(from), &shadows(before)),
            after,
        ),
        StoreA(to, before, after) => are_same(
            copied_to_address(to, Place::Register(Register::A), &shadows(before)),
            after,
        ),
        Switch(registers, after) => are_same(
            stored(Some(Register::A), &one_byte(registers)),
            after,
        ),
        SwitchToNumber(registers, after) => are_same(stored(None, &one_byte(registers)), after),
        Fits(kind, bytes, first, last, result) => {
            fits(kind, &[interval(bytes)], first, last) == result
        }
        FitsBoth(kind, bytes, others, first, last, result) => {
            fits(kind, &[interval(bytes), interval(others)], first, last) == result
        }
        Covers(kind, facts, places, wanted, result) => covers_first(kind, facts, places, wanted)
            == result,
        Return(window, a, address, exit, caller, result) => {
            are_same(returns(window, a, address, exit, caller), result)
        }
    }
}

const STEPS: &[ShadowStep] = &[
    // MBC1: 00, 20 and 01 all give bank 1, and 21 does too.
    Leaves(Kind::Mbc1, BankWindow::First, 0x00, 0x01),
    Leaves(Kind::Mbc1, BankWindow::First, 0x20, 0x01),
    Leaves(Kind::Mbc1, BankWindow::First, 0x21, 0x01),
    Leaves(Kind::Mbc1, BankWindow::First, 0x3F, 0x1F),
    Leaves(Kind::Mbc1, BankWindow::Second, 0x07, 0x03),
    Leaves(Kind::Mbc3, BankWindow::First, 0x80, 0x01),
    Leaves(Kind::Mbc3, BankWindow::First, 0xFF, 0x7F),
    Leaves(Kind::Mbc3, BankWindow::Second, 0x0C, 0x0C),
    Leaves(Kind::Mbc5, BankWindow::First, 0x00, 0x00),
    Leaves(Kind::Mbc5, BankWindow::Second, 0xFF, 0x01),
    InWindow(Kind::Mbc5, BankWindow::First, 0x2FFF, true),
    InWindow(Kind::Mbc5, BankWindow::First, 0x3000, false),
    InWindow(Kind::Mbc1, BankWindow::First, 0x3FFF, true),
    InWindow(Kind::Mbc1, BankWindow::Second, 0x4000, true),
    InWindow(Kind::Mbc1, BankWindow::Second, 0x6000, false),
    InWindow(Kind::Rom, BankWindow::First, 0x2000, false),
    WriteA((A_AND_B, Some(SHADOW)), (B, Some(SHADOW))),
    WriteMemory(0xFF80, 0xFF8F, IN_VARIABLE, NOWHERE),
    WriteMemory(0xFF81, 0xFF8F, IN_VARIABLE, IN_VARIABLE),
    // LDH A,(hCurrentBank), and another variable.
    LoadA(SHADOW, IN_VARIABLE, (A, Some(SHADOW))),
    LoadA(0xFF81, (A, Some(SHADOW)), IN_VARIABLE),
    // A is the bank: the first variable stays the one that is known.
    StoreA(0xFF81, (A, None), (A, Some(0xFF81))),
    StoreA(0xFF81, (A, Some(SHADOW)), (A, Some(SHADOW))),
    // A isn't: the variable isn't any more either.
    StoreA(SHADOW, IN_VARIABLE, NOWHERE),
    StoreA(0xFF81, IN_VARIABLE, IN_VARIABLE),
    Switch(A, (A, Some(SHADOW))),
    Switch(B, (A, None)),
    SwitchToNumber(A, NOWHERE),
    // A bank of 1 to 31, and a variable of 0 to 2: 0 gives 1.
    Fits(Kind::Mbc1, (0, 2, 0), 1, 31, Some((1, 2))),
    Fits(Kind::Mbc1, (0x20, 0x21, 0), 1, 31, Some((1, 1))),
    // 4 8 12 .. 28.
    Fits(Kind::Mbc1, (4, 28, 2), 10, 21, Some((12, 20))),
    FitsBoth(Kind::Mbc1, (4, 9, 0), (8, 12, 0), 1, 31, Some((8, 9))),
    Fits(Kind::Mbc1, (5, 5, 0), 6, 9, None),
    Fits(Kind::Mbc5, (0, 7, 0), 3, 255, Some((3, 7))),
    Fits(Kind::Mbc3, (0x7E, 0x82, 0), 0, 127, Some((1, 127))),
    // A place that isn't one has to be known, and the bank too.
    Covers(
        Kind::Mbc5,
        (ANY, ANY, 0, 255),
        (A, Some(SHADOW)),
        IN_VARIABLE,
        true,
    ),
    Covers(
        Kind::Mbc5,
        (ANY, ANY, 0, 255),
        (A, None),
        IN_VARIABLE,
        false,
    ),
    Covers(
        Kind::Mbc5,
        (ANY, (3, 3, 0), 3, 3),
        NOWHERE,
        IN_VARIABLE,
        true,
    ),
    Covers(
        Kind::Mbc5,
        (ANY, (3, 4, 0), 3, 3),
        NOWHERE,
        IN_VARIABLE,
        false,
    ),
    Covers(
        Kind::Mbc5,
        (ANY, (3, 3, 0), 3, 4),
        NOWHERE,
        IN_VARIABLE,
        false,
    ),
    Covers(
        Kind::Mbc1,
        ((0x20, 0x20, 0), ANY, 1, 1),
        NOWHERE,
        (A, None),
        true,
    ),
    Covers(
        Kind::Mbc1,
        ((2, 2, 0), ANY, 1, 1),
        NOWHERE,
        (A, None),
        false,
    ),
    // Without a mapper any byte leaves the bank, if both are known.
    Covers(
        Kind::Rom,
        ((0x05, 0x05, 0), ANY, 1, 1),
        NOWHERE,
        (A, None),
        true,
    ),
    Covers(
        Kind::Rom,
        ((0x05, 0x06, 0), ANY, 1, 1),
        NOWHERE,
        (A, None),
        false,
    ),
    // A handler that saves the bank and restores it, and one that doesn't.
    Return(
        true,
        true,
        true,
        NOWHERE,
        (A_AND_B, Some(SHADOW)),
        (A, Some(SHADOW)),
    ),
    Return(false, true, true, NOWHERE, (A, Some(SHADOW)), NOWHERE),
    Return(true, false, false, NOWHERE, (A, Some(SHADOW)), NOWHERE),
    // The routine leaves its own.
    Return(
        false,
        false,
        false,
        (B, Some(0xFF81)),
        IN_VARIABLE,
        (B, Some(0xFF81)),
    ),
    Return(
        true,
        true,
        true,
        (B, Some(0xFF81)),
        (A, Some(SHADOW)),
        (A_AND_B, Some(0xFF81)),
    ),
];

#[test]
fn shadows_are_as_worked(rt: HostRuntime) {
    for (i, step) in STEPS.iter().enumerate() {
        assert!(rt; agrees(step), "step {i}");
    }
}
