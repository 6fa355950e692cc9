//! The console's memory, by its addresses. An example is a list of steps, which one function plays.

use bitflags::Flags;
use gb_bus::{Bus, Memory};
use gb_header::Rom;
use gb_ops::machine::ReadSource;
use gb_samples::cartridges::{PLAIN, Sizes, file, put, small};
use gb_timer::irqs::Keys;
use std::alloc::Global;
use std::process::Abort;
use std::test::Fail;

/// What is done to a memory, or what it shows.
#[derive(Clone, Copy)]
enum MemoryStep {
    Write(u16, u8),
    /// So many M-cycles pass.
    Pass(u32),
    Acknowledge(u8),
    Press(Keys),
    LetGo,
    /// So many seconds pass for the cartridge's clock.
    Seconds(u32),
    /// What an address reads.
    Reads(u16, u8),
    IsFree(u16, bool),
    Place(u16, ReadSource),
    Pending(u8),
    /// A line of the screen is of one shade.
    Line(usize, u8),
}

/// Lets M-cycles pass, at most 255 at once.
fn pass<B: Bus>(bus: &mut B, cycles: u32) {
    for _ in 0..cycles / 255 {
        bus.pass(255);
    }
    bus.pass((cycles % 255) as u8);
}

fn reads<B: Bus>(bus: &mut B, address: u16, byte: u8) -> bool {
    bus.read(address) == byte && bus.take(address).byte == byte
}

fn is_line(memory: &Memory<'_>, line: usize, shade: u8) -> bool {
    match memory.screen().get(line) {
        Some(shades) => *shades == [shade; 160],
        None => false,
    }
}

/// Does a step, and answers whether the memory shows what it says.
fn agrees(memory: &mut Memory<'_>, step: MemoryStep) -> bool {
    match step {
        MemoryStep::Write(address, value) => memory.write(address, value),
        MemoryStep::Pass(cycles) => pass(memory, cycles),
        MemoryStep::Acknowledge(i) => {
            if i < 5 {
                memory.acknowledge(i)
            }
        }
        MemoryStep::Press(keys) => memory.set_keys(keys),
        MemoryStep::LetGo => memory.set_keys(Keys::empty()),
        MemoryStep::Seconds(seconds) => memory.advance_clock(seconds),
        MemoryStep::Reads(address, byte) => return reads(memory, address, byte),
        MemoryStep::IsFree(address, is_free) => return memory.take(address).is_free == is_free,
        MemoryStep::Place(address, place) => return memory.place(address) == place,
        MemoryStep::Pending(bits) => return memory.pending() == bits,
        MemoryStep::Line(line, shade) => return is_line(memory, line, shade),
    }
    true
}

fn play(rt: &impl Abort, memory: &mut Memory<'_>, steps: &[MemoryStep]) {
    for (i, step) in steps.iter().enumerate() {
        assert!(rt; agrees(memory, *step), "step {i}");
    }
}

/// Plays steps on the memory of a cartridge at power-up.
fn play_from_power_up(
    rt: &impl Abort,
    alloc: Global,
    cartridge: &[u8],
    steps: &[MemoryStep],
) -> Result<(), Fail> {
    let rom = Rom::parse(cartridge)?;
    let mut memory = Memory::new(alloc, &rom)?;
    play(rt, &mut memory, steps);
    Ok(())
}

/// Plays steps on the memory of a small cartridge at power-up.
fn play_small(
    rt: &impl Abort,
    alloc: Global,
    sizes: Sizes,
    steps: &[MemoryStep],
) -> Result<(), Fail> {
    play_from_power_up(rt, alloc, &small(sizes, &[]), steps)
}

const BANKS: &[MemoryStep] = &[
    // Bank 1.
    MemoryStep::Reads(0x4000, 0x11),
    MemoryStep::Write(0x2000, 0x02),
    // Bank 2.
    MemoryStep::Reads(0x7FFF, 0x22),
    MemoryStep::Place(0x7FFF, ReadSource::Rom(2)),
    MemoryStep::Place(0x3FFF, ReadSource::Rom(0)),
    MemoryStep::IsFree(0x7FFF, false),
    MemoryStep::IsFree(0xFF04, true),
];

#[test]
fn banks_are_shown(rt: HostRuntime) -> Result<(), Fail> {
    let mut bytes = file(rt.alloc(), 0x10000, [0x01, 0x01, 0x00], &[])?;
    put(bytes.as_mut_slice(), 0x4000, &[0x11]);
    put(bytes.as_mut_slice(), 0xBFFF, &[0x22]);
    play_from_power_up(&rt, rt.alloc(), bytes.as_slice(), BANKS)
}

const SIXTEEN_BANKS: &[MemoryStep] = &[
    MemoryStep::Write(0xA000, 0x01),
    // Closed.
    MemoryStep::Reads(0xA000, 0xFF),
    MemoryStep::Write(0x0000, 0x0A),
    MemoryStep::Write(0xA000, 0x02),
    MemoryStep::Write(0x4000, 0x0F),
    MemoryStep::Write(0xA000, 0x03),
    // Bank 15.
    MemoryStep::Reads(0xA000, 0x03),
    MemoryStep::Write(0x4000, 0x00),
    // Bank 0.
    MemoryStep::Reads(0xA000, 0x02),
    MemoryStep::Place(0xA000, ReadSource::Free),
];

/// Open, and nothing is there.
const NO_RAM: &[MemoryStep] = &[
    MemoryStep::Write(0x0000, 0x0A),
    MemoryStep::Write(0xA000, 0x02),
    MemoryStep::Reads(0xA000, 0xFF),
];

#[test]
fn cartridge_ram_is_behind_its_gate(rt: HostRuntime) -> Result<(), Fail> {
    play_small(&rt, rt.alloc(), [0x1B, 0x00, 0x04], SIXTEEN_BANKS)?;
    play_small(&rt, rt.alloc(), [0x19, 0x00, 0x00], NO_RAM)
}

const CLOCK: &[MemoryStep] = &[
    MemoryStep::Write(0x0000, 0x0A),
    MemoryStep::Write(0x4000, 0x08),
    MemoryStep::Write(0xA000, 0x3B),
    MemoryStep::Seconds(1),
    MemoryStep::Write(0x4000, 0x09),
    MemoryStep::Write(0x6000, 0x00),
    MemoryStep::Write(0x6000, 0x01),
    // A minute.
    MemoryStep::Reads(0xA000, 1),
    // No RAM.
    MemoryStep::Write(0x4000, 0x03),
    MemoryStep::Reads(0xA000, 0xFF),
];

#[test]
fn the_clock_is_behind_its_gate(rt: HostRuntime) -> Result<(), Fail> {
    play_small(&rt, rt.alloc(), [0x0F, 0x00, 0x00], CLOCK)
}

/// Addresses of plain storage, and others that are the same byte.
const ECHOES: [(u16, u16); 6] = [
    (0xC000, 0xE000),
    (0xDDFF, 0xFDFF),
    (0xDFFF, 0xDFFF),
    (0xFF80, 0xFF80),
    (0xFFFE, 0xFFFE),
    (0xFFFF, 0xFFFF),
];

/// Work RAM with its echo, high RAM and IE.
#[test]
fn plain_storage_reads_back(rt: HostRuntime) -> Result<(), Fail> {
    let bytes = small(PLAIN, &[]);
    let rom = Rom::parse(&bytes)?;
    let mut memory = Memory::new(rt.alloc(), &rom)?;
    for (address, echo) in ECHOES {
        memory.write(address, 0x5A);
        assert!(rt; reads(&mut memory, echo, 0x5A), "{echo:x}");
        assert!(rt; memory.place(echo) == ReadSource::Plain, "{echo:x}");
    }
    Ok(())
}

const TRANSFER: &[MemoryStep] = &[
    MemoryStep::Write(0xC100, 0x5A),
    MemoryStep::Write(0xFF80, 0x01),
    MemoryStep::Write(0xFF46, 0xC1),
    // Until the event ends.
    MemoryStep::Reads(0xC100, 0x5A),
    MemoryStep::Pass(3),
    // During the transfer.
    MemoryStep::Write(0xC100, 0x00),
    MemoryStep::Write(0xFF80, 0x02),
    MemoryStep::Reads(0xC100, 0xFF),
    MemoryStep::Reads(0xFF80, 0x02),
    MemoryStep::Place(0xC100, ReadSource::Free),
    // In its last M-cycle.
    MemoryStep::Pass(160),
    MemoryStep::Reads(0xC100, 0xFF),
    // What was written is lost.
    MemoryStep::Pass(1),
    MemoryStep::Reads(0xC100, 0x5A),
    // The page.
    MemoryStep::Reads(0xFF46, 0xC1),
];

#[test]
fn a_transfer_closes_all_but_high_ram(rt: HostRuntime) -> Result<(), Fail> {
    play_small(&rt, rt.alloc(), PLAIN, TRANSFER)
}

/// Writes 255, 254 and so on from an address on, then starts a transfer from a page, and lets it end.
fn transfer(memory: &mut Memory<'_>, first: u16, page: u8) {
    for i in 0..=255u8 {
        memory.write(first.wrapping_add(u16::from(i)), 255 - i);
    }
    memory.write(0xFF46, page);
    memory.pass(3);
    memory.pass(161);
}

/// Page E1 is the echo of C1, and page DF the last of work RAM. The picture is off, so that OAM can be read.
#[test]
fn a_transfer_copies_160_bytes(rt: HostRuntime) -> Result<(), Fail> {
    let bytes = small(PLAIN, &[]);
    let rom = Rom::parse(&bytes)?;
    for (page, first) in [(0xC1, 0xC100), (0xE1, 0xC100), (0xDF, 0xDF00)] {
        let mut memory = Memory::new(rt.alloc(), &rom)?;
        memory.write(0xFF40, 0x11);
        transfer(&mut memory, first, page);
        for i in 0..160u8 {
            let is_copied = reads(&mut memory, 0xFE00 + u16::from(i), 255 - i);
            assert!(rt; is_copied, "byte {i} of page {page:x}");
        }
        assert!(rt; reads(&mut memory, 0xFEA0, 0xFF), "behind OAM");
    }
    Ok(())
}

const REQUESTS: &[MemoryStep] = &[
    MemoryStep::Reads(0xFF0F, 0xE1),
    MemoryStep::Pending(0),
    MemoryStep::Write(0xFF0F, 0x00),
    MemoryStep::Write(0xFFFF, 0x14),
    MemoryStep::Write(0xFF06, 0xAB),
    MemoryStep::Write(0xFF05, 0xFE),
    MemoryStep::Write(0xFF07, 0x05),
    MemoryStep::Pass(7),
    MemoryStep::Reads(0xFF05, 0xFF),
    MemoryStep::Pending(0),
    MemoryStep::Pass(1),
    MemoryStep::Reads(0xFF05, 0xAB),
    MemoryStep::Pending(4),
    MemoryStep::Write(0xFF00, 0x10),
    MemoryStep::Press(Keys::A),
    MemoryStep::Reads(0xFF00, 0xDE),
    MemoryStep::Pending(0x14),
    MemoryStep::Acknowledge(2),
    MemoryStep::Pending(0x10),
];

#[test]
fn the_timer_and_keys_request_interrupts(rt: HostRuntime) -> Result<(), Fail> {
    play_small(&rt, rt.alloc(), PLAIN, REQUESTS)
}

const PRESSED: &[MemoryStep] = &[
    MemoryStep::Write(0xFF0F, 0x00),
    MemoryStep::Write(0xFFFF, 0x10),
    MemoryStep::Write(0xFF00, 0x10),
    MemoryStep::Press(Keys::A),
    MemoryStep::Reads(0xFF0F, 0xF0),
    MemoryStep::Acknowledge(4),
];

const HELD: &[MemoryStep] = &[
    MemoryStep::Press(Keys::A),
    MemoryStep::Pass(4),
    MemoryStep::Reads(0xFF0F, 0xE0),
    MemoryStep::Reads(0xFF00, 0xDE),
    MemoryStep::Pending(0),
];

const PRESSED_AGAIN: &[MemoryStep] = &[
    MemoryStep::LetGo,
    MemoryStep::Reads(0xFF0F, 0xE0),
    MemoryStep::Reads(0xFF00, 0xDF),
    MemoryStep::Press(Keys::A),
    MemoryStep::Reads(0xFF0F, 0xF0),
];

/// A is pressed once, its request is taken back, and A is held: no second request, until it is pressed again.
#[test]
fn a_held_key_requests_once(rt: HostRuntime) -> Result<(), Fail> {
    let bytes = small(PLAIN, &[]);
    let rom = Rom::parse(&bytes)?;
    let mut memory = Memory::new(rt.alloc(), &rom)?;
    for steps in [PRESSED, HELD, HELD, HELD, PRESSED_AGAIN] {
        play(&rt, &mut memory, steps);
    }
    Ok(())
}

/// Each register's address, what it reads at power-up, what is written, and what it reads then.
const REGISTERS: [(u16, u8, u8, u8); 18] = [
    (0xFF00, 0xCF, 0x30, 0xFF),
    (0xFF04, 0x00, 0x5A, 0x00),
    (0xFF05, 0x00, 0x5A, 0x5A),
    (0xFF06, 0x00, 0x5A, 0x5A),
    (0xFF07, 0xF8, 0x02, 0xFA),
    (0xFF0F, 0xE1, 0xFF, 0xFF),
    (0xFF40, 0x91, 0x93, 0x93),
    (0xFF41, 0x86, 0xFF, 0xFE),
    (0xFF42, 0x00, 0x5A, 0x5A),
    (0xFF43, 0x00, 0x5A, 0x5A),
    (0xFF44, 0x00, 0x5A, 0x00),
    (0xFF45, 0x00, 0x5A, 0x5A),
    (0xFF46, 0x00, 0xC1, 0xC1),
    (0xFF47, 0xFC, 0x5A, 0x5A),
    (0xFF48, 0x00, 0x5A, 0x5A),
    (0xFF49, 0x00, 0x5A, 0x5A),
    (0xFF4A, 0x00, 0x5A, 0x5A),
    (0xFF4B, 0x00, 0x5A, 0x5A),
];

/// What an address reads at power-up, what is written there, and what it reads then: FF where no register is.
fn register_at(address: u16) -> (u8, u8, u8) {
    let mut found = (0xFF, 0x5A, 0xFF);
    for (register, before, value, after) in REGISTERS {
        if register == address {
            found = (before, value, after);
        }
    }
    found
}

#[test]
fn each_register_reads_and_writes(rt: HostRuntime) -> Result<(), Fail> {
    let bytes = small(PLAIN, &[]);
    let rom = Rom::parse(&bytes)?;
    let mut memory = Memory::new(rt.alloc(), &rom)?;
    for address in 0xFEA0..0xFF80 {
        let (before, value, after) = register_at(address);
        assert!(rt;
            reads(&mut memory, address, before),
            "{address:x} at power-up"
        );
        memory.write(address, value);
        assert!(rt; reads(&mut memory, address, after), "{address:x} written");
        assert!(rt; memory.place(address) == ReadSource::Free, "{address:x}");
    }
    Ok(())
}

/// The frame's first 63 M-cycles; line 144 begins after 16,416.
const MODES: &[MemoryStep] = &[
    MemoryStep::Write(0x8000, 0x11),
    MemoryStep::Write(0xFE00, 0x22),
    // Mode 2.
    MemoryStep::Reads(0x8000, 0x11),
    MemoryStep::Reads(0xFE00, 0xFF),
    // Mode 3.
    MemoryStep::Pass(20),
    MemoryStep::Write(0x8000, 0x33),
    MemoryStep::Write(0xFE00, 0x44),
    MemoryStep::Reads(0x8000, 0xFF),
    MemoryStep::Reads(0xFE00, 0xFF),
    // Mode 0.
    MemoryStep::Pass(43),
    MemoryStep::Reads(0x8000, 0x11),
    MemoryStep::Reads(0xFE00, 0x00),
    MemoryStep::Write(0x8000, 0x55),
    MemoryStep::Write(0xFE00, 0x66),
    MemoryStep::Write(0xFF0F, 0x00),
    MemoryStep::Reads(0x8000, 0x55),
    MemoryStep::Reads(0xFE00, 0x66),
    // The end of line 143, and VBlank.
    MemoryStep::Pass(16_352),
    MemoryStep::Reads(0xFF44, 143),
    MemoryStep::Reads(0xFF0F, 0xE0),
    MemoryStep::Pass(1),
    MemoryStep::Reads(0xFF44, 144),
    MemoryStep::Reads(0xFF0F, 0xE1),
];

#[test]
fn the_picture_closes_its_memories(rt: HostRuntime) -> Result<(), Fail> {
    play_small(&rt, rt.alloc(), PLAIN, MODES)
}

/// With BGP = FF each pixel of the background is black.
const DRAWN: &[MemoryStep] = &[
    MemoryStep::Write(0xFF47, 0xFF),
    // Not yet.
    MemoryStep::Pass(19),
    MemoryStep::Line(0, 0),
    MemoryStep::Pass(1),
    MemoryStep::Line(0, 3),
    MemoryStep::Line(1, 0),
    // Turned off.
    MemoryStep::Write(0xFF40, 0x11),
    MemoryStep::Line(0, 0),
];

#[test]
fn a_line_is_drawn_as_its_mode_3_begins(rt: HostRuntime) -> Result<(), Fail> {
    play_small(&rt, rt.alloc(), PLAIN, DRAWN)
}

const POWER_UP: &[MemoryStep] = &[
    MemoryStep::Write(0x0000, 0x0A),
    MemoryStep::Reads(0x8000, 0x00),
    MemoryStep::Reads(0xA000, 0x00),
    MemoryStep::Reads(0xBFFF, 0x00),
    MemoryStep::Reads(0xC000, 0x00),
    MemoryStep::Reads(0xDFFF, 0x00),
    MemoryStep::Reads(0xFF80, 0x00),
    MemoryStep::Reads(0xFFFE, 0x00),
    MemoryStep::Reads(0xFFFF, 0x00),
    MemoryStep::Line(143, 0),
];

/// With ample memory the console's power-up; where an allocation is refused, nothing else.
#[test]
fn powers_up_or_wants_memory(rt: HostRuntime) -> Result<(), Fail> {
    let bytes = small([0x02, 0x00, 0x02], &[]);
    let rom = Rom::parse(&bytes)?;
    if let Ok(mut memory) = Memory::new(rt.alloc(), &rom) {
        play(&rt, &mut memory, POWER_UP);
    }
    Ok(())
}
