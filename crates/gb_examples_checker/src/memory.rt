//! Loads and stores of abstract states.

use gb_abs::cells::with_cell;
use gb_abs::covering::cell_at;
use gb_abs::reason::Reason;
use gb_abs::span::Span;
use gb_abs::stack::push;
use gb_abs_memory::load::{load, val_at};
use gb_abs_memory::refusals::{
    is_limited, is_store_limited, meets_closed_ram, store_meets_closed_ram,
};
use gb_abs_memory::store::{Area, area_of, is_storable, store, stored_state};
use gb_abs_memory::windows::ControllerRegister;
use gb_domain::pairs::ANY_PAIRS;
use gb_domain::types::{Halves, KeptBanks, Rules, Setting};
use gb_ops::machine::{Kind, Region};
use gb_ops::op::Register;
use gb_samples::cartridges::{PLAIN, SMALLEST, Sizes, put, small};
use gb_samples::states::{ANY, EITHER, SET, START, copy_of, entered, from_to};
use gb_verify::{Abs, Core, Ctl, May, Origin, Range, Rom, Val};
use std::test::Fail;

/// Main, by the rules of versions 1 and 2.
const MAIN: Setting = Setting {
    rules: Rules::Simple,
    is_whole: false,
    is_main: true,
    base: 0,
    entered: ANY_PAIRS,
};

/// A procedure above DFF0, by the rules of version 3.
const ABOVE: Setting = Setting {
    rules: Rules::Extended,
    is_whole: false,
    is_main: false,
    base: 0xDFF0,
    entered: ANY_PAIRS,
};

/// A procedure whose base isn't known, by the rules of version 3.
const ANYWHERE: Setting = Setting { base: 0, ..ABOVE };

/// Main, by the rules of version 3.
const FREE: Setting = Setting {
    rules: Rules::Extended,
    is_whole: false,
    is_main: true,
    base: 0xE000,
    entered: ANY_PAIRS,
};

/// MBC3 with 8 KiB of RAM.
const WITH_RAM: Sizes = [0x12, 0x00, 0x02];

const REGION: Region = Region {
    first: 0xDF00,
    last: 0xDFFF,
};

/// Two ranges that touch, and one in high RAM.
const RANGES: [Range; 3] = [
    Range {
        first: 0xC000,
        last: 0xCFFF,
    },
    Range {
        first: 0xD000,
        last: 0xDEFF,
    },
    Range {
        first: 0xFF80,
        last: 0xFFFE,
    },
];

fn span(first: u16, last: u16) -> Span {
    Span {
        last,
        ..Span::one(first)
    }
}

/// A cartridge with 30, 10 and 20 (hexadecimal) at 0200, and 77 at the start of bank 1.
fn cartridge(sizes: Sizes) -> [u8; SMALLEST] {
    let mut bytes = small(sizes, &[]);
    put(&mut bytes, 0x0200, &[0x30, 0x10, 0x20]);
    put(&mut bytes, 0x4000, &[77]);
    bytes
}

/// A core with such a gate and such a bound, and IE 01.
fn core_with(gate: May, bound: u8) -> Core {
    Core {
        bound,
        ctl: Ctl { gate, ..START },
        ie: from_to(1, 1),
        ..entered()
    }
}

/// A state with cells C000 = 11, C001 = 12, DDFF = 13 and FF80 = 14.
fn state_with(gate: May, bound: u8) -> Abs {
    let mut state = Abs::new(core_with(gate, bound));
    for (address, value) in [(0xC000, 11), (0xC001, 12), (0xDDFF, 13), (0xFF80, 14)] {
        state = with_cell(Rules::Simple, &state, address, from_to(value, value));
    }
    state
}

/// The addresses that are read, the bounds of what is known of the byte, and whether a transfer that may run leaves it
/// so; where it doesn't, the load is refused.
const LOADS: [((u16, u16), (u8, u8), bool); 16] = [
    ((0x0000, 0x0000), (0, 0), false),
    ((0x4000, 0x4000), (77, 77), false),
    ((0x4000, 0x4001), (0, 255), false),
    ((0x8000, 0x8000), (0, 255), false),
    ((0xA000, 0xA000), (0, 255), false),
    ((0xC000, 0xC000), (11, 11), false),
    ((0xC000, 0xC001), (0, 255), false),
    ((0xE001, 0xE001), (12, 12), false),
    ((0xFDFF, 0xFDFF), (13, 13), false),
    ((0xC002, 0xC002), (0, 255), false),
    ((0xFF46, 0xFF46), (0, 255), false),
    ((0xFF80, 0xFF80), (14, 14), true),
    ((0xFF80, 0xFFFE), (0, 255), true),
    ((0xFF7F, 0xFF80), (0, 255), false),
    ((0xFFFE, 0xFFFF), (0, 255), false),
    ((0xFFFF, 0xFFFF), (1, 1), false),
];

/// Whether a load gives this value without a transfer, and stays so or is refused with one that may run.
fn gives(rom: &Rom<'_>, at: Span, val: Val, stays: bool) -> bool {
    let limited = if stays {
        Ok(val)
    } else {
        Err(Reason::OamTransfer)
    };
    load(MAIN, rom, &state_with(SET, 0), at) == Ok(val)
        && load(MAIN, rom, &state_with(SET, 1), at) == limited
}

#[test]
fn loads(rt: HostRuntime) -> Result<(), Fail> {
    let bytes = cartridge(WITH_RAM);
    let rom = Rom::parse(&bytes)?;
    for (i, ((first, last), (lo, hi), stays)) in LOADS.iter().enumerate() {
        assert!(rt;
            gives(&rom, span(*first, *last), from_to(*lo, *hi), *stays),
            "load {i}"
        );
    }
    assert!(rt; val_at(&rom, &state_with(EITHER, 1), 0x4000) == from_to(77, 77));
    Ok(())
}

/// The addresses that are read by the rules of version 3, the last of the banks from 1 on that may be shown at 4000, and the
/// bounds of what is known of the byte. Items are a copy of B from 64 to 65, and 66 to 67.
const EXTENDED_LOADS: [((u16, u16), u16, (u8, u8)); 14] = [
    // Tables of at most 256 bytes in one half of ROM, where one bank is shown.
    ((0x0200, 0x0202), 1, (0x10, 0x30)),
    ((0x0201, 0x0202), 1, (0x10, 0x20)),
    ((0x0000, 0x00FF), 1, (0, 0)),
    ((0x0000, 0x0100), 1, (0, 255)),
    ((0x3FFF, 0x4000), 1, (0, 255)),
    ((0x4000, 0x4001), 1, (0, 77)),
    ((0x4000, 0x4001), 2, (0, 255)),
    ((0x0200, 0x0202), 2, (0x10, 0x30)),
    ((0x7FFF, 0x8000), 1, (0, 255)),
    ((0xC000, 0xC001), 1, (0, 255)),
    // An item, what lies below them and above the base, and a cell.
    ((0xDFEE, 0xDFEE), 1, (66, 67)),
    ((0xDFED, 0xDFED), 1, (0, 255)),
    ((0xDFF0, 0xDFF0), 1, (0, 255)),
    ((0xC001, 0xC001), 1, (12, 12)),
];

/// A state with two items and four cells, that may show banks from 1 on.
fn stacked(bank_hi: u16) -> Abs {
    let mut state = state_with(SET, 0);
    let core = *state.core();
    state.set_core(Core {
        ctl: Ctl {
            bank_hi,
            ..core.ctl
        },
        ..core
    });
    let word = Halves {
        high: copy_of(Register::B, 64, 65),
        low: from_to(66, 67),
    };
    match push(Rules::Extended, &state, word) {
        Some(pushed) => pushed,
        None => state,
    }
}

#[test]
fn loads_of_version_3(rt: HostRuntime) -> Result<(), Fail> {
    let bytes = cartridge(WITH_RAM);
    let rom = Rom::parse(&bytes)?;
    for (i, ((first, last), bank_hi, (lo, hi))) in EXTENDED_LOADS.iter().enumerate() {
        let loaded = load(ABOVE, &rom, &stacked(*bank_hi), span(*first, *last));
        assert!(rt; loaded == Ok(from_to(*lo, *hi)), "load {i}");
    }
    // An item keeps what it is a copy of.
    let loaded = load(ABOVE, &rom, &stacked(1), Span::one(0xDFEF));
    assert!(rt; loaded == Ok(copy_of(Register::B, 64, 65)));
    Ok(())
}

/// Addresses of which one at least is cartridge RAM's.
const CLOSED: [(u16, u16); 3] = [(0xA000, 0xA000), (0xBFFF, 0xC000), (0x9FFF, 0xA000)];

/// Whether a load is refused where the gate may be closed, and where there is no RAM.
fn meets_closed(rom: &Rom<'_>, flat: &Rom<'_>, at: Span) -> bool {
    let closed = Err(Reason::CartridgeRam);
    load(MAIN, rom, &state_with(EITHER, 1), at) == closed
        && load(MAIN, flat, &state_with(SET, 0), at) == closed
        && meets_closed_ram(rom, &core_with(EITHER, 0), at)
        && !meets_closed_ram(rom, &core_with(SET, 0), at)
}

/// What may be closed comes before a transfer.
#[test]
fn loads_of_cartridge_ram(rt: HostRuntime) -> Result<(), Fail> {
    let bytes = cartridge(WITH_RAM);
    let rom = Rom::parse(&bytes)?;
    let bytes = cartridge(PLAIN);
    let flat = Rom::parse(&bytes)?;
    for (i, (first, last)) in CLOSED.iter().enumerate() {
        assert!(rt; meets_closed(&rom, &flat, span(*first, *last)), "load {i}");
    }
    assert!(rt; !meets_closed_ram(&rom, &core_with(EITHER, 0), Span::one(0x9FFF)));
    assert!(rt; is_limited(&core_with(SET, 1), span(0xFF80, 0xFFFF)));
    Ok(())
}

/// Addresses, their area, and whether a store may lie there.
const AREAS: [(u16, u16, Option<Area>, bool); 16] = [
    (0x8000, 0x9FFF, Some(Area::Hardware), true),
    (0x9FFF, 0xA000, None, false),
    (0xA000, 0xBFFF, Some(Area::Hardware), true),
    (0xBFFF, 0xC000, None, false),
    (0xC000, 0xCFFF, Some(Area::Ram), true),
    // Over two ranges that touch, though both ends lie in one.
    (0xCFFF, 0xD000, Some(Area::Ram), false),
    (0xD000, 0xDEFF, Some(Area::Ram), true),
    (0xDEFF, 0xDF00, Some(Area::Ram), false),
    (0xDF80, 0xDF80, Some(Area::Ram), false),
    (0xE000, 0xE000, None, false),
    (0xFDFF, 0xFDFF, None, false),
    (0xFE00, 0xFF7F, Some(Area::Hardware), true),
    (0xFF7F, 0xFF80, None, false),
    (0xFF80, 0xFFFE, Some(Area::Ram), true),
    (0xFFFE, 0xFFFF, None, false),
    (0xFFFF, 0xFFFF, Some(Area::InterruptEnable), true),
];

#[test]
fn areas_of_stores(rt: HostRuntime) {
    let low = Some(Area::Controller(Some(ControllerRegister::LowBank)));
    assert!(rt; area_of(Kind::Mbc5, span(0x2000, 0x2FFF)) == low);
    let none = Some(Area::Controller(None));
    assert!(rt; area_of(Kind::Mbc3, span(0x6000, 0x7FFF)) == none);
    for (first, last, area, storable) in AREAS {
        let at = span(first, last);
        assert!(rt; area_of(Kind::Mbc1, at) == area, "{first:x} to {last:x}");
        assert!(rt;
            is_storable(MAIN, Kind::Mbc1, REGION, &RANGES, at) == storable,
            "{first:x} to {last:x}"
        );
    }
}

/// Where a procedure stands, addresses, and whether it may store there by the rules of version 3.
const ALLOWED: [(Setting, u16, u16, bool); 15] = [
    // Main may in all of RAM, as long as all addresses lie in one of its parts.
    (FREE, 0xC000, 0xDFFF, true),
    (FREE, 0xDFF0, 0xDFFF, true),
    (FREE, 0xFF80, 0xFFFE, true),
    (FREE, 0xDFFF, 0xE000, false),
    (FREE, 0xFF7F, 0xFF80, false),
    // Another procedure may in its ranges, and in the stack region below its base.
    (ABOVE, 0xC000, 0xCFFF, true),
    (ABOVE, 0xCFFF, 0xD000, false),
    (ABOVE, 0xDF00, 0xDFEF, true),
    (ABOVE, 0xDFEF, 0xDFF0, false),
    (ABOVE, 0xDFF0, 0xDFF0, false),
    (ABOVE, 0xDEFF, 0xDF00, false),
    (ABOVE, 0xDFFF, 0xDFFF, false),
    // Where the base isn't known, in the ranges alone.
    (ANYWHERE, 0xC000, 0xCFFF, true),
    (ANYWHERE, 0xDF00, 0xDF00, false),
    (ANYWHERE, 0xFF80, 0xFFFE, true),
];

#[test]
fn procedures_may_store(rt: HostRuntime) {
    for (setting, first, last, allowed) in ALLOWED {
        let at = span(first, last);
        assert!(rt;
            is_storable(setting, Kind::Mbc1, REGION, &RANGES, at) == allowed,
            "{first:x} to {last:x}"
        );
    }
}

const AREA: Option<Reason> = Some(Reason::Store);

const RAM: Option<Reason> = Some(Reason::CartridgeRam);

const TRANSFER: Option<Reason> = Some(Reason::OamTransfer);

/// Addresses, the bounds of the byte, the gate and the transfer's bound, and why the store is refused, if it is.
type Refusal = ((u16, u16), (u8, u8), May, u8, Option<Reason>);

const REFUSALS: [Refusal; 19] = [
    ((0xC000, 0xC001), (0, 255), SET, 0, None),
    ((0xC000, 0xC001), (0, 255), SET, 1, TRANSFER),
    ((0xFF80, 0xFF81), (0, 255), SET, 1, None),
    ((0x2000, 0x3FFF), (0, 255), SET, 1, TRANSFER),
    ((0x1FFF, 0x2000), (0, 255), EITHER, 1, AREA),
    ((0x9FFF, 0xA000), (0, 255), EITHER, 1, AREA),
    ((0xA000, 0xBFFF), (0, 255), EITHER, 1, RAM),
    ((0xA000, 0xBFFF), (0, 255), SET, 0, None),
    ((0xFF46, 0xFF46), (0x00, 0x9F), EITHER, 0, None),
    ((0xFF46, 0xFF46), (0x00, 0xA0), EITHER, 0, RAM),
    ((0xFF46, 0xFF46), (0xBF, 0xFF), EITHER, 0, RAM),
    ((0xFF46, 0xFF46), (0xC0, 0xFF), EITHER, 0, None),
    ((0xFF46, 0xFF46), (0xA0, 0xBF), SET, 0, None),
    ((0xFF46, 0xFF46), (0xC0, 0xC0), SET, 1, TRANSFER),
    ((0xFF45, 0xFF46), (0xC0, 0xC0), SET, 0, TRANSFER),
    ((0xFF45, 0xFF46), (0xB0, 0xC0), EITHER, 0, RAM),
    ((0xFF47, 0xFF7F), (0xB0, 0xC0), EITHER, 0, None),
    ((0xFFFF, 0xFFFF), (0, 31), SET, 1, TRANSFER),
    ((0xFFFE, 0xFFFF), (0, 31), SET, 1, AREA),
];

/// Whether a store is refused for this reason, or not at all.
fn is_refused_so(rom: &Rom<'_>, row: &Refusal) -> bool {
    let ((first, last), (lo, hi), gate, bound, reason) = *row;
    let state = state_with(gate, bound);
    let at = span(first, last);
    store(MAIN, rom, REGION, &RANGES, &state, at, &from_to(lo, hi)).err() == reason
}

#[test]
fn refuses_stores(rt: HostRuntime) -> Result<(), Fail> {
    let bytes = cartridge(WITH_RAM);
    let rom = Rom::parse(&bytes)?;
    for (i, row) in REFUSALS.iter().enumerate() {
        assert!(rt; is_refused_so(&rom, row), "store {i}");
    }
    let page = from_to(0xA0, 0xA0);
    assert!(rt; store_meets_closed_ram(&rom, &core_with(EITHER, 0), Span::one(0xFF46), &page));
    assert!(rt; is_store_limited(&core_with(SET, 0), span(0xFF00, 0xFF7F)));
    Ok(())
}

/// A known byte with an origin.
const OWN: Val = Val {
    lo: 0xC0,
    hi: 0xC0,
    low_bits: 0,
    origin: Some(Origin::Ie),
};

/// What IE holds before the stores.
const IE: Val = Val {
    lo: 1,
    hi: 1,
    low_bits: 0,
    origin: None,
};

/// What C000 holds before them.
const FIRST: Val = Val {
    lo: 11,
    hi: 11,
    low_bits: 0,
    origin: None,
};

/// What C001 holds before them.
const SECOND: Val = Val {
    lo: 12,
    hi: 12,
    low_bits: 0,
    origin: None,
};

/// What a store leaves: IE, C000, C001, how many cells, whether the controller is kept, and whether a transfer starts.
type Left = (Val, Val, Val, usize, bool, bool);

/// What a store leaves that changes nothing.
const SAME: Left = (IE, FIRST, SECOND, 4, true, false);

/// The addresses of a store, its value, and what it leaves.
const STORES: [(u16, u16, Val, Left); 11] = [
    // One address gets the value with its origin. Of several nothing is known any more.
    (0xC001, 0xC001, OWN, (IE, FIRST, OWN, 4, true, false)),
    (0xC001, 0xC0FF, OWN, (IE, FIRST, ANY, 3, true, false)),
    (0xC000, 0xC001, OWN, (IE, ANY, ANY, 2, true, false)),
    (0xC100, 0xC100, OWN, (IE, FIRST, SECOND, 5, true, false)),
    // The bank may be what it was, but it isn't kept. 6000-7FFF of MBC3 has no register.
    (0x2000, 0x3FFF, IE, (IE, FIRST, SECOND, 4, false, false)),
    (0x6000, 0x7FFF, IE, SAME),
    (0x8000, 0x8000, OWN, SAME),
    (0xA000, 0xBFFF, OWN, SAME),
    (0xFF45, 0xFF45, OWN, SAME),
    (0xFF46, 0xFF46, OWN, (IE, FIRST, SECOND, 4, true, true)),
    (0xFFFF, 0xFFFF, OWN, (OWN, FIRST, SECOND, 4, true, false)),
];

/// What C000 and C001 may hold behind a store to one of several addresses, by the rules of version 3.
const FIRST_OR_OWN: Val = Val { hi: 0xC0, ..FIRST };

const SECOND_OR_OWN: Val = Val { hi: 0xC0, ..SECOND };

/// Of several each may hold the value too.
const EXTENDED_STORES: [(u16, u16, Val, Left); 3] = [
    (0xC001, 0xC001, OWN, (IE, FIRST, OWN, 4, true, false)),
    (
        0xC001,
        0xC0FF,
        OWN,
        (IE, FIRST, SECOND_OR_OWN, 4, true, false),
    ),
    (
        0xC000,
        0xC001,
        OWN,
        (IE, FIRST_OR_OWN, SECOND_OR_OWN, 4, true, false),
    ),
];

/// A copy of B from 64 to 65, and 66 to 67: the items of `stacked`, at DFEF and DFEE where the base is DFF0.
const HIGH: Val = Val {
    lo: 64,
    hi: 65,
    low_bits: 0,
    origin: Some(Origin::B),
};

const LOW: Val = Val {
    lo: 66,
    hi: 67,
    low_bits: 0,
    origin: None,
};

/// Where a procedure stands, the addresses of a store, and the two items behind it. No store here makes a cell.
const ITEM_STORES: [(Setting, u16, u16, [Val; 2]); 8] = [
    // An item gets the value; of several each may be any byte.
    (ABOVE, 0xDFEF, 0xDFEF, [OWN, LOW]),
    (ABOVE, 0xDFEE, 0xDFEE, [HIGH, OWN]),
    (ABOVE, 0xDFED, 0xDFEE, [HIGH, ANY]),
    (ABOVE, 0xDFEE, 0xDFEF, [ANY, ANY]),
    // Nothing is known of the bytes below them, nor of those above the base.
    (ABOVE, 0xDFED, 0xDFED, [HIGH, LOW]),
    (ABOVE, 0xDFF0, 0xDFF0, [HIGH, LOW]),
    // Where the base isn't known they may stand anywhere in the region.
    (ANYWHERE, 0xDF80, 0xDF80, [ANY, ANY]),
    (ANYWHERE, 0xC001, 0xC001, [HIGH, LOW]),
];

#[test]
fn stores_meet_items(rt: HostRuntime) {
    let state = stacked(1);
    for (i, (setting, first, last, items)) in ITEM_STORES.iter().enumerate() {
        let at = span(*first, *last);
        let stored = stored_state(*setting, REGION, Kind::Mbc3, at, &OWN, &state);
        assert!(rt; stored.items() == items.as_slice(), "store {i}");
        assert!(rt; stored.cells().len() == 4, "store {i}");
    }
}

/// Whether a store isn't refused, and leaves this of the state with an open gate.
fn leaves(setting: Setting, rom: &Rom<'_>, at: Span, val: &Val, left: &Left) -> bool {
    let Ok(stored) = store(setting, rom, REGION, &RANGES, &state_with(SET, 0), at, val) else {
        return false;
    };
    let (ie, first, second, count, is_kept, starts) = *left;
    let (core, cells) = (stored.state.core(), stored.state.cells());
    core.ie == ie
        && cell_at(0xC000, cells) == first
        && cell_at(0xC001, cells) == second
        && cells.len() == count
        && core.ctl.kept == KeptBanks::all_or_none(is_kept)
        && stored.starts == starts
}

#[test]
fn stores(rt: HostRuntime) -> Result<(), Fail> {
    let bytes = cartridge(WITH_RAM);
    let rom = Rom::parse(&bytes)?;
    for (i, (first, last, val, left)) in STORES.iter().enumerate() {
        assert!(rt;
            leaves(MAIN, &rom, span(*first, *last), val, left),
            "store {i}"
        );
    }
    for (i, (first, last, val, left)) in EXTENDED_STORES.iter().enumerate() {
        assert!(rt;
            leaves(ABOVE, &rom, span(*first, *last), val, left),
            "extended store {i}"
        );
    }
    Ok(())
}
