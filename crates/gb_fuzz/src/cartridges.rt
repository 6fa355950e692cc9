//! Changed cartridges: what the calls that read them say has to agree, and where the certificate still fits, the cartridge
//! runs.

use crate::random::Random;
use crate::tally::Tally;
use bitflags::Flags;
use gb_header::{HeaderFault, Rom};
use gb_printed::{Console, Ending, Outcome, header_bytes, verify_bytes};
use gb_text::kept_bytes::KeptBytes;
use gb_timer::irqs::Keys;
use std::alloc::Global;

/// The most bytes that are changed in one cartridge.
const MOST: usize = 4;

/// Where a byte stood, and what it was.
type Undo = [(usize, u8); MOST];

/// An offset in the header (its type and sizes first), in the code of the examples, or anywhere.
fn place(random: &mut Random, length: usize) -> usize {
    match random.below(8) {
        0 | 1 => 0x147 + random.below(3),
        2 => 0x134 + random.below(0x1A),
        3 | 4 => 0x100 + random.below(0x80),
        5 => random.below(0x68),
        _ => random.below(length.max(1)),
    }
}

/// Changes some bytes, and tells what they were; the header's checksum mostly fits again.
fn change(random: &mut Random, rom: &mut [u8]) -> Undo {
    let mut undo = [(0x14D, rom.get(0x14D).copied().unwrap_or(0)); MOST];
    let count = random.below(MOST);
    for i in 1..=count {
        let at = place(random, rom.len());
        if let (Some(byte), Some(kept)) = (rom.get_mut(at), undo.get_mut(i)) {
            *kept = (at, *byte);
            *byte = random.changed(*byte);
        }
    }
    if random.below(4) != 0 {
        fix_checksum(rom);
    }
    undo
}

/// Puts the checksum of 0134 to 014C at 014D.
fn fix_checksum(rom: &mut [u8]) {
    let mut sum = 0u8;
    for byte in rom.get(0x134..0x14D).unwrap_or(&[]) {
        sum = sum.wrapping_sub(*byte).wrapping_sub(1);
    }
    if let Some(to) = rom.get_mut(0x14D) {
        *to = sum;
    }
}

/// Puts the bytes back, the last change first.
fn restore(rom: &mut [u8], undo: &Undo) {
    for (at, byte) in undo.iter().rev() {
        if let Some(to) = rom.get_mut(*at) {
            *to = *byte;
        }
    }
}

/// The line of a fault.
fn fault_line(fault: HeaderFault) -> [u8; 13] {
    let mut line = *b"CARTRIDGE H0\n";
    line[11] = b'0'.wrapping_add(fault.number());
    line
}

/// Whether `header` and `verify` write what reading the cartridge says, and how the verdict is.
fn agree(alloc: Global, file: &[u8], cert: &[u8], fault: Option<HeaderFault>) -> Option<Outcome> {
    let (mut header, mut verdict) = (KeptBytes::new(96, 96), KeptBytes::new(96, 96));
    let told = header_bytes(file, &mut header).ok()?;
    let outcome = verify_bytes(alloc, file, cert, &mut verdict).ok()?;
    let is_right = match fault {
        Some(fault) => {
            let line = fault_line(fault);
            header.kept() == line.as_slice()
                && verdict.kept() == line.as_slice()
                && outcome == Outcome::Unreadable
        }
        None => {
            header.kept().starts_with(b"type ")
                && matches!(outcome, Outcome::Accepted | Outcome::Refused)
        }
    };
    if told == fault && is_right {
        Some(outcome)
    } else {
        None
    }
}

/// How many frames a changed cartridge runs that is accepted: each key is pressed in one of two.
pub const FEW: usize = 2;

/// Whether frames with random keys and seconds are whole. In each second frame the keys are held that were not before, so that
/// each key is pressed in one of two frames that follow one another.
pub fn runs(alloc: Global, random: &mut Random, rom: &Rom<'_>, frames: usize) -> bool {
    let Ok(mut console) = Console::new(alloc, rom) else {
        return false;
    };
    let mut held = 0u8;
    for i in 0..frames {
        held = if i % 2 == 0 { random.byte() } else { !held };
        let seconds = (random.below(64) == 0) as u32 * random.byte() as u32;
        if console.frame(Keys::from_bits_retain(held), seconds) != Ending::Whole {
            return false;
        }
    }
    true
}

/// Whether all calls agree on this file; a cartridge that is accepted runs.
fn judge(alloc: Global, random: &mut Random, file: &[u8], cert: &[u8], tally: &mut Tally) -> bool {
    match Rom::parse(file) {
        Ok(rom) => {
            tally.count_readable();
            match agree(alloc, file, cert, None) {
                Some(Outcome::Accepted) => {
                    tally.count_accepted();
                    runs(alloc, random, &rom, FEW)
                }
                outcome => outcome == Some(Outcome::Refused),
            }
        }
        Err(fault) => {
            tally.note(fault.number());
            agree(alloc, file, cert, Some(fault)).is_some()
        }
    }
}

/// Changes a cartridge so many times, a few bytes each and at times its length, and puts it before the calls that read it.
pub fn storm(
    alloc: Global,
    random: &mut Random,
    rom: &mut [u8],
    cert: &[u8],
    count: usize,
) -> Tally {
    let mut tally = Tally::new();
    for _ in 0..count {
        let undo = change(random, rom);
        let length = match random.below(16) {
            0 => random.below(rom.len().max(1)),
            1 => rom.len().saturating_sub(1),
            _ => rom.len(),
        };
        let file = rom.get(..length).unwrap_or(&[]);
        let is_right = judge(alloc, random, file, cert, &mut tally);
        tally.count(is_right);
        restore(rom, &undo);
    }
    tally
}
