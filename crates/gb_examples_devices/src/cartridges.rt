//! Headers and controllers.

ghost use Rattle.std.specs.Prelude.{◌≤◌};

use gb_header::{HeaderFault, Rom};
use gb_mbc::{Clock, ClockRegister, Controller, Mapper};
use gb_ops::machine::Kind;
use gb_samples::cartridges::{PLAIN, Sizes, file, put, small};
use std::test::Fail;

/// What is wrong with a file, if anything is.
fn fault_in(bytes: &[u8]) -> Option<HeaderFault> {
    Rom::parse(bytes).err()
}

/// The kind, ROM and RAM banks, the clock, the sizes and the checksum.
type Header = (Kind, u16, u8, bool, Sizes, u8);

const HEADERS: [Header; 10] = [
    (Kind::Mbc1, 2, 0, false, [0x02, 0x00, 0x00], 0xE5),
    (Kind::Rom, 2, 0, false, [0x00, 0x00, 0x00], 0xE7),
    (Kind::Mbc1, 16, 0, false, [0x01, 0x03, 0x00], 0xE3),
    (Kind::Mbc1, 64, 0, false, [0x01, 0x05, 0x00], 0xE1),
    (Kind::Mbc3, 2, 1, false, [0x12, 0x00, 0x02], 0xD3),
    (Kind::Mbc3, 2, 4, true, [0x10, 0x00, 0x03], 0xD4),
    (Kind::Mbc3, 2, 0, true, [0x0F, 0x00, 0x03], 0xD5),
    (Kind::Mbc5, 512, 0, false, [0x19, 0x08, 0x00], 0xC6),
    (Kind::Mbc5, 2, 16, false, [0x1B, 0x00, 0x04], 0xC8),
    (Kind::Mbc5, 2, 8, false, [0x1E, 0x00, 0x05], 0xC4),
];

/// Whether a cartridge is as its header tells.
fn is_told(rom: &Rom<'_>, told: &Header) -> bool {
    let (kind, banks, ram_banks, has_clock, sizes, checksum) = *told;
    rom.kind() == kind
        && rom.type_byte() == sizes[0]
        && rom.banks() == banks
        && rom.ram_banks() == ram_banks
        && rom.has_clock() == has_clock
        && rom.has_rumble() == (sizes[0] == 0x1E)
        && rom.checksum() == checksum
}

#[test]
fn reads_each_kind(rt: HostRuntime) -> Result<(), Fail> {
    for told in &HEADERS {
        let length = 0x4000 * usize::from(told.1);
        assert!(rt; length >= 0x150);
        let bytes = file(rt.alloc(), length, told.4, &[])?;
        let rom = Rom::parse(bytes.as_slice())?;
        assert!(rt; is_told(&rom, told), "{length} bytes");
        assert!(rt; rom.bytes().len() == bytes.len());
    }
    Ok(())
}

/// A bank, an address, and the byte there.
const BYTES: [(u16, u16, u8); 4] = [
    (0, 0x101, 0xC3),
    (0x21, 0x4000, 0x18),
    (0x21, 0x7FFF, 0xFE),
    (0x21, 0x0000, 0x18),
];

#[test]
fn reads_bytes_of_banks(rt: HostRuntime) -> Result<(), Fail> {
    let mut bytes = file(rt.alloc(), 0x100000, [0x01, 0x05, 0x00], &[])?;
    put(bytes.as_mut_slice(), 0x4000 * 0x21, &[0x18]);
    put(bytes.as_mut_slice(), 0x4000 * 0x21 + 0x3FFF, &[0xFE]);
    let rom = Rom::parse(bytes.as_slice())?;
    assert!(rt; rom.banks() == 64);
    for (bank, address, byte) in BYTES {
        assert!(rt; bank < rom.banks());
        assert!(rt;
            rom.byte(bank, address) == byte,
            "{address:x} of bank {bank:x}"
        );
    }
    Ok(())
}

/// A fault's number, a file's length and sizes, and whether its checksum is right.
const FAULTS: [(u8, usize, Sizes, bool); 12] = [
    (7, 0x8000, [0x00, 0x00, 0x00], false),
    (2, 0x8000, [0x05, 0x00, 0x00], false),
    (2, 0x8000, [0x08, 0x00, 0x02], true),
    (1, 0x7FFF, [0x00, 0x00, 0x00], true),
    (1, 0x150, [0x05, 0x00, 0x00], false),
    (4, 0x8001, [0x00, 0x00, 0x00], true),
    (6, 0x400000, [0x01, 0x07, 0x00], true),
    (6, 0x10000, [0x00, 0x01, 0x00], true),
    (6, 0x8000, [0x1D, 0x00, 0x04], false),
    (6, 0x8000, [0x13, 0x00, 0x05], true),
    (5, 0x8000, [0x02, 0x00, 0x01], true),
    (3, 0x8000, [0x00, 0x09, 0x00], true),
];

/// The lowest of several faults is named. A file of zeros has a wrong checksum alone, one of FF another type.
#[test]
fn names_the_lowest_fault(rt: HostRuntime) -> Result<(), Fail> {
    for (number, length, sizes, is_right) in FAULTS {
        assert!(rt; length >= 0x150);
        let mut bytes = file(rt.alloc(), length, sizes, &[])?;
        if !is_right {
            put(bytes.as_mut_slice(), 0x14D, &[0x00]);
        }
        let fault = fault_in(bytes.as_slice()).ok_or("a fault")?;
        assert!(rt; fault.number() == number, "of {length} bytes");
    }
    assert!(rt; fault_in(&[]) == Some(HeaderFault::TooShort));
    assert!(rt; fault_in(&[0; 0x8000]) == Some(HeaderFault::Checksum));
    assert!(rt; fault_in(&[0xFF; 0x8000]) == Some(HeaderFault::Type));
    Ok(())
}

/// The banks shown at 0000 and at 4000, and the RAM bank, through the trait alone.
fn shown<M: Mapper>(mapper: &M) -> (u16, u16, Option<u8>) {
    (mapper.low_bank(), mapper.high_bank(), mapper.ram_bank())
}

fn write_all<M: Mapper>(mapper: &mut M, writes: &[(u16, u8)]) {
    for (address, value) in writes {
        mapper.write(*address, *value);
    }
}

/// The ROM banks of a cartridge and its sizes, writes to its controller, and the banks that are then shown.
type Row<'a> = (usize, Sizes, &'a [(u16, u8)], (u16, u16, Option<u8>));

const MBC1: Sizes = [0x01, 0x03, 0x00];

const MBC1_WITH_RAM: Sizes = [0x03, 0x03, 0x03];

const MBC5: Sizes = [0x19, 0x05, 0x00];

const CONTROLLERS: [Row<'static>; 15] = [
    // MBC1: five bits, of which 0 counts as 1 before the cartridge's banks cut them.
    (16, MBC1, &[], (0, 1, None)),
    (16, MBC1, &[(0x2000, 0x10)], (0, 0, None)),
    (16, MBC1, &[(0x2000, 0x00)], (0, 1, None)),
    (16, MBC1, &[(0x2000, 0x20)], (0, 1, None)),
    (16, MBC1, &[(0x2000, 0x1F)], (0, 15, None)),
    // Its second register is the RAM bank in mode 1.
    (16, MBC1_WITH_RAM, &[(0x4000, 0x02)], (0, 1, Some(0))),
    (
        16,
        MBC1_WITH_RAM,
        &[(0x4000, 0x02), (0x6000, 0x01)],
        (0, 1, Some(2)),
    ),
    // MBC5 has nine bits, and bank 0 is shown.
    (64, MBC5, &[(0x2000, 0xFF), (0x3000, 0x01)], (0, 63, None)),
    (
        512,
        [0x19, 0x08, 0x00],
        &[(0x2000, 0xFF), (0x3000, 0x01)],
        (0, 511, None),
    ),
    (64, MBC5, &[(0x2000, 0x00)], (0, 0, None)),
    // MBC3 has seven bits, of which 0 counts as 1.
    (128, [0x11, 0x06, 0x00], &[(0x2000, 0x80)], (0, 1, None)),
    // Rumble has one bit less for the RAM bank.
    (2, [0x1E, 0x00, 0x05], &[(0x4000, 0x0F)], (0, 1, Some(7))),
    (2, [0x1B, 0x00, 0x04], &[(0x4000, 0x0F)], (0, 1, Some(15))),
    (2, [0x10, 0x00, 0x03], &[(0x4000, 0x03)], (0, 1, Some(3))),
    (
        2,
        PLAIN,
        &[(0x0000, 0x0A), (0x2000, 0x00), (0x6000, 0x01)],
        (0, 1, None),
    ),
];

/// Whether the controller of a cartridge shows these banks behind these writes.
fn shows(rom: &Rom<'_>, writes: &[(u16, u8)], expected: (u16, u16, Option<u8>)) -> bool {
    let mut controller = Controller::of(rom);
    write_all(&mut controller, writes);
    shown(&controller) == expected
}

#[test]
fn controllers_show_banks(rt: HostRuntime) -> Result<(), Fail> {
    for (banks, sizes, writes, expected) in CONTROLLERS {
        assert!(rt; banks <= 512);
        let length = 0x4000 * banks;
        assert!(rt; length >= 0x150);
        let bytes = file(rt.alloc(), length, sizes, &[])?;
        let rom = Rom::parse(bytes.as_slice())?;
        assert!(rt; shows(&rom, writes, expected), "{writes:?} of {sizes:?}");
    }
    Ok(())
}

/// An address, a value written there, and whether the gate is open then.
const GATE: [(u16, u8, bool); 4] = [
    (0x0000, 0xFA, true),
    (0x8000, 0x00, true),
    (0x1FFF, 0xA0, false),
    (0x1FFF, 0x0A, true),
];

/// A value written to 4000, and the clock's register that is shown then.
const SHOWN: [(u8, Option<ClockRegister>); 8] = [
    (0x03, None),
    (0x07, None),
    (0x08, Some(ClockRegister::Seconds)),
    (0x09, Some(ClockRegister::Minutes)),
    (0x0A, Some(ClockRegister::Hours)),
    (0x0B, Some(ClockRegister::DayLow)),
    (0x0C, Some(ClockRegister::DayHigh)),
    (0x0D, None),
];

#[test]
fn the_gate_opens_by_four_bits(rt: HostRuntime) -> Result<(), Fail> {
    let bytes = small([0x10, 0x00, 0x03], &[]);
    let mut controller = Controller::of(&Rom::parse(&bytes)?);
    for (address, value, is_open) in GATE {
        controller.write(address, value);
        assert!(rt; controller.gate() == is_open, "{value:x} at {address:x}");
    }
    for (value, register) in SHOWN {
        controller.write(0x4000, value);
        assert!(rt; controller.clock_register() == register, "{value:x}");
        assert!(rt; controller.ram_bank().is_some() == (value == 0x03));
    }
    Ok(())
}

const REGISTERS: [ClockRegister; 5] = [
    ClockRegister::Seconds,
    ClockRegister::Minutes,
    ClockRegister::Hours,
    ClockRegister::DayLow,
    ClockRegister::DayHigh,
];

/// A clock whose registers were written, from the seconds on.
fn clock_at(values: [u8; 5]) -> Clock {
    let mut clock = Clock::new();
    for (register, value) in REGISTERS.iter().zip(&values) {
        clock.put(*register, *value);
    }
    clock
}

/// A clock's registers, seconds that pass, and the registers then.
const CARRIES: [([u8; 5], u32, [u8; 5]); 5] = [
    ([59, 59, 23, 0xFF, 0x01], 1, [0, 0, 0, 0x00, 0x80]),
    ([0x3F, 0x05, 0, 0, 0], 1, [0, 5, 0, 0, 0]),
    // Halted; bits that a register lacks are dropped.
    ([0xFF; 5], 100, [0x3F, 0x3F, 0x1F, 0xFF, 0xC1]),
    // 512 days; 49,710 days and 6:28:15.
    ([0; 5], 44_236_800, [0, 0, 0, 0, 0x80]),
    ([0; 5], 4_294_967_295, [15, 28, 6, 46, 0x80]),
];

/// Whether the latched registers, from the seconds on, are these.
fn is_latched(clock: &Clock, values: &[u8; 5]) -> bool {
    for (register, value) in REGISTERS.iter().zip(values) {
        if clock.get(*register) != *value {
            return false;
        }
    }
    true
}

#[test]
fn the_clock_carries(rt: HostRuntime) {
    for (values, seconds, expected) in CARRIES {
        let mut clock = clock_at(values);
        clock.advance(seconds);
        clock.latch();
        assert!(rt; is_latched(&clock, &expected), "after {seconds} seconds");
    }
}

/// A value written to 6000, and the seconds that are read then.
const LATCHES: [(u8, u8); 6] = [(1, 0), (0, 0), (2, 0), (1, 0), (0, 0), (1, 7)];

#[test]
fn the_clock_is_latched_by_00_and_01(rt: HostRuntime) {
    let mut clock = clock_at([7, 0, 0, 0, 0]);
    for (value, seconds) in LATCHES {
        clock.command(value);
        assert!(rt; clock.get(ClockRegister::Seconds) == seconds);
    }
    clock.advance(1);
    assert!(rt;
        clock.get(ClockRegister::Seconds) == 7,
        "what was latched stays"
    );
}
