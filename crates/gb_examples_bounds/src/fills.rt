//! Fills: what a loop that clears has done so far.

use gb_domain::pairs::{ANY_BOUNDS, Bounds};
use gb_domain::summary::{Fill, FillEnd, Reach};
use gb_domain::types::{Cell, Range, Val};
use gb_domain::{LowBits, StridedInterval};
use gb_ops::op::Pointer;
use gb_ram_bounds::covering::{byte_at, gives_fills};
use gb_ram_bounds::fills::{filled, is_in_extent, lowered, raised, written};
use gb_ram_bounds::returned::{caller_fill_left, is_exit_fill_left};
use gb_ram_bounds::{AddressSet, Pointers};
use std::process::Abort;

/// The bytes from the first to the second.
type FromTo = (u8, u8);

fn from_to(bytes: FromTo) -> StridedInterval {
    let (lo, hi) = bytes;
    StridedInterval { lo, hi, count: 0 }
}

/// HL is from C010 to C020.
const POINTERS: Pointers<Bounds> = Pointers {
    bc: ANY_BOUNDS,
    de: ANY_BOUNDS,
    hl: Bounds {
        first: 0xC010,
        last: 0xC020,
    },
    high_c: ANY_BOUNDS,
};

/// From first to last bytes from lo to hi; where there is an end, those below HL plus a distance, in offset binary.
type FillParts = (u16, u16, u8, u8, Option<u16>);

fn fill_of(told: FillParts) -> Fill {
    let (first, last, lo, hi, offset) = told;
    let end = offset.map(|offset| FillEnd {
        pointer: Pointer::Hl,
        reach: Reach::Below,
        offset,
    });
    Fill {
        first,
        last,
        lo,
        hi,
        end,
    }
}

/// A distance of 0.
const NONE: u16 = 32_768;

fn addresses(first: u16, last: u16) -> AddressSet {
    AddressSet {
        first,
        last,
        low: LowBits { count: 0, bits: 0 },
    }
}

const RANGES: &[Range] = &[Range {
    first: 0xC000,
    last: 0xC07F,
}];

fn keeps(hl: bool) -> Pointers<bool> {
    Pointers {
        bc: false,
        de: false,
        hl,
        high_c: false,
    }
}

fn is_same_end(end: Option<FillEnd>, other: Option<FillEnd>) -> bool {
    match (end, other) {
        (None, None) => true,
        (Some(end), Some(other)) => {
            matches!((end.pointer, other.pointer), (Pointer::Hl, Pointer::Hl))
                && matches!((end.reach, other.reach), (Reach::Below, Reach::Below))
                && end.offset == other.offset
        }
        _ => false,
    }
}

fn is_same(fill: Fill, other: Fill) -> bool {
    (fill.first, fill.last) == (other.first, other.last)
        && (fill.lo, fill.hi) == (other.lo, other.hi)
        && is_same_end(fill.end, other.end)
}

fn is_left(fill: Option<Fill>, other: Option<FillParts>) -> bool {
    match (fill, other) {
        (None, None) => true,
        (Some(fill), Some(other)) => is_same(fill, fill_of(other)),
        _ => false,
    }
}

#[derive(Clone, Copy)]
enum FillStep {
    /// Whether an address is in a fill for sure.
    Has(FillParts, u16, bool),
    /// What is known of a byte.
    Byte(FillParts, u16, FromTo),
    /// A store of a value to one of some addresses, through HL or not.
    Store(bool, u16, u16, FromTo, FillParts, FillParts),
    /// HL gets so much more, or less, or any other value.
    Rise(u16, FillParts, Option<FillParts>),
    Fall(u16, FillParts, Option<FillParts>),
    Write(FillParts, Option<FillParts>),
    /// Whether a state with the first fill gives the second.
    Gives(FillParts, FillParts, bool),
    /// Whether it does, if one byte has a cell.
    GivesWithCell(FillParts, u16, FromTo, FillParts, bool),
    /// Whether a fill of the exit is left where a routine returns.
    Exit(FillParts, bool),
    /// What is left of a fill of the caller, where the routine kept HL or not.
    Caller(bool, FillParts, Option<FillParts>),
}

use FillStep::{Byte, Caller, Exit, Fall, Gives, GivesWithCell, Has, Rise, Store, Write};

fn store(by_hl: bool, stored: AddressSet, value: FromTo, told: FillParts) -> Fill {
    let through = if by_hl { Some(Pointer::Hl) } else { None };
    filled(&[], stored, through, from_to(value), fill_of(told))
}

fn cell_of(address: u16, bytes: FromTo) -> Cell {
    let (lo, hi) = bytes;
    Cell {
        address,
        val: Val {
            lo,
            hi,
            low_bits: 0,
            origin: None,
        },
    }
}

fn gives(told: FillParts, cells: &[Cell], wanted: FillParts) -> bool {
    gives_fills(
        &[],
        cells,
        &[fill_of(told)],
        &POINTERS,
        &[],
        &[fill_of(wanted)],
    )
}

fn agrees(step: &FillStep) -> bool {
    match *step {
        Has(told, address, result) => is_in_extent(&POINTERS, &fill_of(told), address) == result,
        Byte(told, address, result) => {
            byte_at(&[], &[], &[fill_of(told)], &POINTERS, address) == from_to(result)
        }
        Store(by_hl, first, last, value, told, result) => {
            is_same(
                store(by_hl, addresses(first, last), value, told),
                fill_of(result),
            )
        }
        Rise(by, told, result) => is_left(
            raised(Pointer::Hl, by, &POINTERS, fill_of(told)),
            result,
        ),
        Fall(by, told, result) => is_left(
            lowered(Pointer::Hl, by, &POINTERS, fill_of(told)),
            result,
        ),
        Write(told, result) => is_left(written(Pointer::Hl, &POINTERS, fill_of(told)), result),
        Gives(told, wanted, result) => gives(told, &[], wanted) == result,
        GivesWithCell(told, address, bytes, wanted, result) => {
            gives(told, &[cell_of(address, bytes)], wanted) == result
        }
        Exit(told, result) => is_exit_fill_left(RANGES, &fill_of(told)) == result,
        Caller(kept, told, result) => is_left(
            caller_fill_left(RANGES, &keeps(kept), &POINTERS, fill_of(told)),
            result,
        ),
    }
}

const STEPS: &[FillStep] = &[
    // With the least HL, C010, the last one is C00F.
    Has((0xC000, 0xC0FF, 0, 0, Some(NONE)), 0xC00F, true),
    Has((0xC000, 0xC0FF, 0, 0, Some(NONE)), 0xC010, false),
    Has((0xC000, 0xC0FF, 0, 0, Some(NONE + 1)), 0xC010, true),
    Has((0xC000, 0xC0FF, 0, 0, Some(NONE)), 0xBFFF, false),
    Byte((0xC000, 0xC0FF, 0, 0, Some(NONE)), 0xC00F, (0, 0)),
    Byte((0xC000, 0xC0FF, 0, 0, Some(NONE)), 0xC010, (0, 255)),
    // LD (HL),0 adds one address, LD (HL),n from 0 to 7 widens it too.
    Store(
        true,
        0xC010,
        0xC020,
        (0, 0),
        (0xC000, 0xC0FF, 0, 0, Some(NONE)),
        (0xC000, 0xC0FF, 0, 0, Some(NONE + 1)),
    ),
    Store(
        true,
        0xC010,
        0xC020,
        (0, 7),
        (0xC000, 0xC0FF, 0, 0, Some(NONE)),
        (0xC000, 0xC0FF, 0, 7, Some(NONE + 1)),
    ),
    // A store elsewhere in the stretch, and outside.
    Store(
        false,
        0xC080,
        0xC080,
        (5, 6),
        (0xC000, 0xC0FF, 0, 0, Some(NONE)),
        (0xC000, 0xC0FF, 0, 6, Some(NONE)),
    ),
    Store(
        false,
        0xC100,
        0xC100,
        (5, 6),
        (0xC000, 0xC0FF, 0, 0, Some(NONE)),
        (0xC000, 0xC0FF, 0, 0, Some(NONE)),
    ),
    // INC HL, DEC HL, and as far as the distance goes.
    Rise(
        1,
        (0xC000, 0xC0FF, 0, 0, Some(NONE + 1)),
        Some((0xC000, 0xC0FF, 0, 0, Some(NONE))),
    ),
    Fall(
        1,
        (0xC000, 0xC0FF, 0, 0, Some(NONE)),
        Some((0xC000, 0xC0FF, 0, 0, Some(NONE + 1))),
    ),
    Fall(
        0x8000,
        (0xC000, 0xC0FF, 0, 0, Some(NONE)),
        Some((0xC000, 0xC00F, 0, 0, None)),
    ),
    // LD HL,n16: what is filled for sure stays.
    Write(
        (0xC000, 0xC0FF, 0, 0, Some(NONE)),
        Some((0xC000, 0xC00F, 0, 0, None)),
    ),
    Write((0xC000, 0xC0FF, 0, 0, Some(NONE - 16)), None),
    Write(
        (0xC000, 0xC0FF, 0, 0, None),
        Some((0xC000, 0xC0FF, 0, 0, None)),
    ),
    // One that goes less far is given by one that goes further, a wider one by a narrower one.
    Gives(
        (0xC000, 0xC0FF, 0, 0, Some(NONE + 1)),
        (0xC000, 0xC0FF, 0, 0, Some(NONE)),
        true,
    ),
    Gives(
        (0xC000, 0xC0FF, 0, 0, Some(NONE)),
        (0xC000, 0xC0FF, 0, 0, Some(NONE + 1)),
        false,
    ),
    Gives(
        (0xC000, 0xC0FF, 0, 0, Some(NONE)),
        (0xC000, 0xC0FF, 0, 3, Some(NONE)),
        true,
    ),
    // With the greatest HL, C020, it is empty, and costs nothing.
    Gives(
        (0xC000, 0xC0FF, 0, 9, None),
        (0xC000, 0xC0FF, 0, 0, Some(NONE - 0x20)),
        true,
    ),
    Gives(
        (0xC000, 0xC0FF, 0, 9, None),
        (0xC000, 0xC0FF, 0, 0, Some(NONE - 0x1F)),
        false,
    ),
    // What has no end: a part of it, and one from which only less is known.
    Gives(
        (0xC000, 0xC0FF, 0, 9, None),
        (0xC010, 0xC01F, 0, 9, None),
        true,
    ),
    Gives(
        (0xC000, 0xC0FF, 3, 9, None),
        (0xC010, 0xC01F, 0, 12, None),
        true,
    ),
    Gives(
        (0xC000, 0xC0FF, 0, 9, None),
        (0xC010, 0xC100, 0, 9, None),
        false,
    ),
    // A cell with what the fill says, and another one that ends at the same pointer.
    GivesWithCell(
        (0xC000, 0xC0FF, 0, 0, None),
        0xC040,
        (0, 0),
        (0xC000, 0xC0FF, 0, 0, None),
        true,
    ),
    GivesWithCell(
        (0xC000, 0xC0FF, 0, 0, Some(NONE)),
        0xC008,
        (1, 1),
        (0xC000, 0xC0FF, 0, 0, Some(NONE)),
        false,
    ),
    // In a cell another value is known.
    GivesWithCell(
        (0xC000, 0xC0FF, 0, 0, None),
        0xC040,
        (1, 1),
        (0xC000, 0xC0FF, 0, 0, None),
        false,
    ),
    GivesWithCell(
        (0xC000, 0xC0FF, 0, 9, None),
        0xC040,
        (1, 1),
        (0xC040, 0xC040, 0, 1, None),
        true,
    ),
    Exit((0xC000, 0xC07F, 0, 0, None), true),
    Exit((0xC000, 0xC080, 0, 0, None), false),
    Caller(true, (0xC000, 0xC0FF, 0, 0, Some(NONE)), None),
    Caller(
        true,
        (0xC080, 0xC0FF, 0, 0, Some(NONE)),
        Some((0xC080, 0xC0FF, 0, 0, Some(NONE))),
    ),
    // HL is lost: below C010 nothing of C080 to C0FF is filled.
    Caller(false, (0xC080, 0xC0FF, 0, 0, Some(NONE)), None),
    // With a distance of 90 it is filled below C0A0.
    Caller(
        false,
        (0xC080, 0xC0FF, 0, 0, Some(NONE + 0x90)),
        Some((0xC080, 0xC09F, 0, 0, None)),
    ),
    Caller(
        false,
        (0xC080, 0xC0FF, 2, 3, None),
        Some((0xC080, 0xC0FF, 2, 3, None)),
    ),
];

#[test]
fn fills_are_as_worked(rt: HostRuntime) {
    for (i, step) in STEPS.iter().enumerate() {
        assert!(rt; agrees(step), "step {i}");
    }
}
