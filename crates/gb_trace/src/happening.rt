//! What went wrong, in a sentence.

use crate::touch::{TouchKind, TouchedByte};
use gb_ops::decode::decode;
use gb_ops::machine::{Event, Region};
use gb_ops::op::Op;
use gb_spelling::interrupt_name;
use gb_witness::{FaultKind, Sighting, lowest_fault};
use std::fmt;

/// The sentence for an event with a fault.
#[derive(Clone, Copy)]
pub struct Happening<'a> {
    pub sighting: &'a Sighting,
    pub region: Region,
    pub touch: Option<TouchedByte>,
    /// Whether the cartridge has RAM or a clock.
    pub has_ram: bool,
}

/// The part of memory at an address, as authors call it (Pan Docs: Memory Map).
fn part_of(address: u16) -> &'static str {
    match address {
        0x0000..=0x7FFF => "ROM",
        0x8000..=0x9FFF => "VRAM",
        0xA000..=0xBFFF => "SRAM",
        0xC000..=0xDFFF => "WRAM",
        0xE000..=0xFDFF => "echo RAM",
        0xFE00..=0xFE9F => "OAM",
        0xFEA0..=0xFEFF => "the unusable area",
        0xFF00..=0xFF7F | 0xFFFF => "the I/O registers",
        0xFF80..=0xFFFE => "HRAM",
    }
}

/// What the processor does with a byte.
fn does(kind: TouchKind) -> &'static str {
    match kind {
        TouchKind::Fetched => "runs code at",
        TouchKind::Read => "reads",
        TouchKind::Written => "writes",
        TouchKind::Pushed => "pushes to",
    }
}

/// What pushes.
fn pusher(sighting: &Sighting) -> &'static str {
    match sighting.event {
        Event::Irq(number) => return interrupt_name(number),
        _ => {}
    }
    match decode(&sighting.met.bytes) {
        Some(row) => match row.op {
            Op::Push(_) => "PUSH",
            Op::Restart(_) => "RST",
            _ => "CALL",
        },
        None => "an instruction",
    }
}

/// A push outside the stack region.
fn fmt_push<W: fmt::Write>(
    happening: &Happening<'_>,
    address: u16,
    f: &mut fmt::Formatter<W>,
) -> fmt::Result {
    let Region { first, last } = happening.region;
    let pusher = pusher(happening.sighting);
    if address < first {
        write!(
            f,
            "the stack overflows: {pusher} writes ${address:04X}, below the stack (${first:04X}..${last:04X})"
        )
    } else {
        write!(
            f,
            "{pusher} writes ${address:04X}, above the stack (${first:04X}..${last:04X}): SP isn't set yet, or too much was popped"
        )
    }
}

/// Cartridge RAM that is touched while it is disabled, or where there is none.
fn fmt_ram<W: fmt::Write>(happening: &Happening<'_>, f: &mut fmt::Formatter<W>) -> fmt::Result {
    match happening.touch {
        Some(touch) => {
            let does = does(touch.kind);
            let address = touch.address;
            write!(f, "the CPU {does} SRAM at ${address:04X}")?;
        }
        None => write!(f, "OAM DMA copies from SRAM")?,
    }
    if happening.has_ram {
        write!(f, " while it is disabled: write $0A to $0000 first")
    } else {
        write!(f, ", but this cartridge has none")
    }
}

/// Memory that an OAM transfer closes.
fn fmt_transfer<W: fmt::Write>(
    touch: Option<TouchedByte>,
    f: &mut fmt::Formatter<W>,
) -> fmt::Result {
    let (kind, address) = match touch {
        Some(touch) => (touch.kind, touch.address),
        None => (TouchKind::Read, 0),
    };
    let does = does(kind);
    let part = part_of(address);
    write!(
        f,
        "the CPU {does} ${address:04X} ({part}) during OAM DMA: only HRAM works until it ends"
    )
}

impl fmt::Display for Happening<'_> {
    fn fmt<W: fmt::Write>(&self, f: &mut fmt::Formatter<W>) -> fmt::Result {
        let address = match self.touch {
            Some(touch) => touch.address,
            None => self.sighting.processor.pc,
        };
        match lowest_fault(self.sighting.faults) {
            FaultKind::UndefinedOpcode => {
                let opcode = self.sighting.met.bytes[0];
                write!(
                    f,
                    "opcode ${opcode:02X} doesn't exist, and the CPU locks up"
                )
            }
            FaultKind::FetchedOutside => {
                let part = part_of(address);
                write!(
                    f,
                    "the CPU runs code in {part}, at ${address:04X}: code belongs in ROM, WRAM or HRAM"
                )
            }
            FaultKind::StackOutside => fmt_push(self, address, f),
            FaultKind::RamClosed => fmt_ram(self, f),
            FaultKind::TransferMet => fmt_transfer(self.touch, f),
        }
    }
}
