//! Loads by the rules of version 4: facts and fills tell of RAM where a state has no cell. The values are worked out by hand.

use arrayvec::ArrayVec;
use gb_abs::cells::with_cell;
use gb_domain::interval::StridedInterval;
use gb_domain::pairs::ANY_PAIRS;
use gb_domain::summary::{BankShadows, Fact, Fill, Summary};
use gb_domain::types::{Core, Rules, Setting};
use gb_ops::decode::decode;
use gb_ops::machine::{Kind, Region};
use gb_ops::registers::Registers;
use gb_samples::cartridges::{PLAIN, put, small};
use gb_samples::states::{ANY, entered, from_to};
use gb_verify::{Abs, Program, Rom, Stack, Val, successors_of};
use std::test::Fail;

/// The bytes of C000, C010 and so on to C0F0 are 0, 4, 8 or 12, and those of C000 to C0FF are 0 to 9.
const FACTS: &[Fact] = &[
    Fact {
        first: 0xC000,
        last: 0xC0F0,
        step: 16,
        value: StridedInterval {
            lo: 0,
            hi: 12,
            count: 2,
        },
    },
    Fact {
        first: 0xC000,
        last: 0xC0FF,
        step: 1,
        value: StridedInterval {
            lo: 0,
            hi: 9,
            count: 0,
        },
    },
];

const REGION: Region = Region {
    first: 0xDF00,
    last: 0xDFFF,
};

/// A procedure above DFF0, by the rules of version 4.
const WHOLE: Setting = Setting {
    rules: Rules::Extended,
    is_whole: true,
    is_main: false,
    base: 0xDFF0,
    entered: ANY_PAIRS,
};

/// The bytes of C080 to C08F are 5 to 20; so many facts hold, and C020 is 77.
fn state_of(level: u16) -> Abs {
    let mut fills = ArrayVec::new();
    fills.push(Fill {
        first: 0xC080,
        last: 0xC08F,
        lo: 5,
        hi: 20,
        end: None,
    });
    let mut state = with_cell(
        Rules::Extended,
        &Abs::new(entered()),
        0xC020,
        from_to(77, 77),
    );
    state.set_summary(Summary::of_parts(level, fills, BankShadows::default(), None));
    state
}

/// What A is behind an instruction.
fn behind(setting: Setting, rom: &Rom<'_>, bytes: [u8; 3], state: &Abs) -> Option<Val> {
    let row = decode(&bytes)?;
    let stack = Stack {
        setting,
        region: REGION,
        need: 16,
        main_need: 16,
        mark: 0,
    };
    let program = Program {
        is_whole: true,
        kind: Kind::Rom,
        facts: FACTS,
    };
    let taken = successors_of(stack, &program, rom, row, 0x0150, state).taken?;
    Some(taken.core().registers.a)
}

/// What A is behind LD A,(n16).
fn loaded(setting: Setting, level: u16, rom: &Rom<'_>, address: u16) -> Option<Val> {
    let bytes = [0xFA, (address % 256) as u8, (address / 256) as u8];
    behind(setting, rom, bytes, &state_of(level))
}

/// Values of which low bits are known.
fn strided(lo: u8, hi: u8, low_bits: u8) -> Val {
    Val {
        lo,
        hi,
        low_bits,
        origin: None,
    }
}

/// What A is behind LD A,(HL) with two facts, for these values of H and L.
fn pointed(setting: Setting, rom: &Rom<'_>, h: Val, l: Val) -> Option<Val> {
    let mut state = state_of(2);
    let core = entered();
    state.set_core(Core {
        registers: Registers {
            h,
            l,
            ..core.registers
        },
        ..core
    });
    behind(setting, rom, [0x7E, 0, 0], &state)
}

/// The address that is read, how many facts hold, and the least value, the greatest and the low bits that are known.
const LOADED: [(u16, u16, (u8, u8, u8)); 9] = [
    // Both facts, one of them, and none.
    (0xC010, 2, (0, 8, 2)),
    (0xC010, 1, (0, 12, 2)),
    (0xC010, 0, (0, 255, 0)),
    // No address of the first fact.
    (0xC011, 2, (0, 9, 0)),
    // The echo is the same byte.
    (0xE010, 2, (0, 8, 2)),
    // The fill too: of 0, 4 and 8 one is left.
    (0xC080, 2, (8, 8, 0)),
    (0xC081, 2, (5, 9, 0)),
    // A cell alone.
    (0xC020, 2, (77, 77, 0)),
    (0xE020, 2, (77, 77, 0)),
];

#[test]
fn facts_and_fills_tell_of_bytes(rt: HostRuntime) -> Result<(), Fail> {
    let bytes = small(PLAIN, &[]);
    let rom = Rom::parse(&bytes)?;
    for (address, level, (lo, hi, low_bits)) in LOADED {
        let want = Val {
            lo,
            hi,
            low_bits,
            origin: None,
        };
        assert!(rt;
            loaded(WHOLE, level, &rom, address) == Some(want),
            "{address}"
        );
    }
    Ok(())
}

/// By the rules of version 3 cells alone tell.
#[test]
fn version_3_asks_cells_alone(rt: HostRuntime) -> Result<(), Fail> {
    let bytes = small(PLAIN, &[]);
    let rom = Rom::parse(&bytes)?;
    let setting = Setting {
        is_whole: false,
        ..WHOLE
    };
    assert!(rt; loaded(setting, 2, &rom, 0xC010) == Some(ANY));
    assert!(rt; loaded(setting, 2, &rom, 0xC020) == Some(from_to(77, 77)));
    Ok(())
}

/// The least and the greatest value of H, those of L with its low bits, and what is known of the byte at HL.
const POINTED: [((u8, u8), (u8, u8, u8), (u8, u8, u8)); 9] = [
    // Each 16th byte, of which one is 8; in work RAM and through its echo.
    ((0xC0, 0xC0), (0x30, 0xF0, 4), (0, 8, 2)),
    ((0xE0, 0xE0), (0x30, 0xF0, 4), (0, 8, 2)),
    // Each byte.
    ((0xC0, 0xC0), (0x30, 0x3F, 0), (0, 9, 0)),
    ((0xC0, 0xC0), (0x81, 0x8F, 0), (5, 9, 0)),
    // A cell that has no low bit in common with the rest.
    ((0xC0, 0xC0), (0x10, 0x20, 4), (0, 77, 0)),
    // Bytes of which nothing is known, and the stack region.
    ((0xC0, 0xC1), (0x00, 0xF0, 4), (0, 255, 0)),
    ((0xDE, 0xDF), (0x00, 0xFF, 0), (0, 255, 0)),
    // A table: 30 and 20 (hexadecimal) count, and all three.
    ((0x02, 0x02), (0x00, 0x02, 1), (0x20, 0x30, 4)),
    ((0x02, 0x02), (0x00, 0x02, 0), (0x10, 0x30, 4)),
];

#[test]
fn addresses_that_count_are_joined(rt: HostRuntime) -> Result<(), Fail> {
    let mut bytes = small(PLAIN, &[]);
    put(&mut bytes, 0x0200, &[0x30, 0x10, 0x20]);
    let rom = Rom::parse(&bytes)?;
    for (i, (h, l, want)) in POINTED.into_iter().enumerate() {
        let (h, l) = (from_to(h.0, h.1), strided(l.0, l.1, l.2));
        assert!(rt;
            pointed(WHOLE, &rom, h, l) == Some(strided(want.0, want.1, want.2)),
            "pointer {i}"
        );
    }
    Ok(())
}
