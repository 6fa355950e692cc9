//! The bytes of memory that an event touches, and the one that is at fault.

use gb_ops::decode::decode;
use gb_ops::machine::{Event, Read, Region, Write};
use gb_witness::{FaultKind, Sighting, lowest_fault};

/// How a byte is touched.
#[derive(Clone, Copy, PartialEq, Eq)]
pub enum TouchKind {
    Fetched,
    Read,
    Written,
    Pushed,
}

/// A byte that is touched.
#[derive(Clone, Copy, PartialEq, Eq)]
pub struct TouchedByte {
    pub kind: TouchKind,
    pub address: u16,
}

impl TouchedByte {
    /// The byte so many addresses after another one.
    fn of(kind: TouchKind, address: u16, after: u16) -> Option<TouchedByte> {
        Some(TouchedByte {
            kind,
            address: address.wrapping_add(after),
        })
    }
}

/// How many bytes of its instruction an event fetches.
fn fetched(sighting: &Sighting) -> u8 {
    match sighting.event {
        Event::Run { .. } => match decode(&sighting.met.bytes) {
            Some(row) => row.length,
            None => 1,
        },
        Event::HaltStay | Event::HaltBug => 1,
        Event::Irq(_) | Event::Wait(_) => 0,
    }
}

/// The bytes of the instruction.
fn fetches(sighting: &Sighting) -> [Option<TouchedByte>; 3] {
    let pc = sighting.processor.pc;
    let count = fetched(sighting);
    let mut touches = [None; 3];
    for (after, touch) in touches.iter_mut().enumerate() {
        if after < usize::from(count) {
            *touch = TouchedByte::of(TouchKind::Fetched, pc, after as u16);
        }
    }
    touches
}

/// What is read besides.
fn reads(read: Read) -> [Option<TouchedByte>; 2] {
    match read {
        Read::Nothing => [None, None],
        Read::Byte(address) => [TouchedByte::of(TouchKind::Read, address, 0), None],
        Read::Word(address) => [
            TouchedByte::of(TouchKind::Read, address, 0),
            TouchedByte::of(TouchKind::Read, address, 1),
        ],
    }
}

/// What is written.
fn writes(write: Write) -> [Option<TouchedByte>; 2] {
    match write {
        Write::Nothing => [None, None],
        Write::Byte(address, _) => [TouchedByte::of(TouchKind::Written, address, 0), None],
        Write::Word(address, _) => [
            TouchedByte::of(TouchKind::Written, address, 0),
            TouchedByte::of(TouchKind::Written, address, 1),
        ],
        Write::Push(sp, _) => [
            TouchedByte::of(TouchKind::Pushed, sp, 0xFFFF),
            TouchedByte::of(TouchKind::Pushed, sp, 0xFFFE),
        ],
    }
}

/// Whether code may lie at an address.
fn is_code(address: u16) -> bool {
    matches!(address, 0x0000..=0x7FFF | 0xC000..=0xDFFF | 0xFF80..=0xFFFE)
}

/// Whether a byte that is touched has a fault of this kind.
fn is_at_fault(touch: TouchedByte, kind: FaultKind, region: Region) -> bool {
    let TouchedByte { kind: how, address } = touch;
    match kind {
        FaultKind::UndefinedOpcode => false,
        FaultKind::FetchedOutside => how == TouchKind::Fetched && !is_code(address),
        FaultKind::StackOutside => {
            how == TouchKind::Pushed && !(region.first <= address && address <= region.last)
        }
        FaultKind::RamClosed => 0xA000 <= address && address <= 0xBFFF,
        FaultKind::TransferMet => !(0xFF80 <= address && address <= 0xFFFE),
    }
}

/// The first byte that has the lowest fault of an event. None for an undefined opcode, and where a page of cartridge RAM is written
/// to FF46.
pub fn touch_at_fault(sighting: &Sighting, region: Region) -> Option<TouchedByte> {
    let kind = lowest_fault(sighting.faults);
    let [first, second, third] = fetches(sighting);
    let [read, next_read] = reads(sighting.met.read);
    let [written, next_written] = writes(sighting.met.write);
    let touches = [first, second, third, read, next_read, written, next_written];
    for touch in touches {
        if let Some(touch) = touch {
            if is_at_fault(touch, kind, region) {
                return Some(touch);
            }
        }
    }
    None
}
