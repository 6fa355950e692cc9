//! A stack region for a cartridge whose region nobody names.

use gb_ops::machine::{Event, Region};
use gb_printed::{Console, Ending, FRAME_CYCLES, keys_at, seconds_of};

/// SP at power-up (Pan Docs: Power-up sequence).
const POWER_UP_SP: u16 = 0xFFFE;

/// LD SP,n16.
const LOAD_SP: u8 = 0x31;

/// Where a run puts its stack.
#[derive(Clone, Copy, PartialEq, Eq)]
pub enum FoundStack {
    /// The bytes of work RAM or high RAM below the address.
    Below(Region),
    /// Below this address is no such byte.
    NotRam(u16),
}

/// The RAM below an address: from C000 or FF80 on, up to the byte below it.
fn region_below(sp: u16) -> FoundStack {
    match sp {
        0xC001..=0xE000 => FoundStack::Below(Region {
            first: 0xC000,
            last: sp - 1,
        }),
        0xFF81..=0xFFFF => FoundStack::Below(Region {
            first: 0xFF80,
            last: sp - 1,
        }),
        _ => FoundStack::NotRam(sp),
    }
}

/// Plays one frame of a script, up to its first LD SP,n16, and answers that address, and how the frame ended if it did.
fn frame_loads(console: &mut Console<'_>, script: &[u8], number: u32) -> Result<Ending, u16> {
    let mut seconds = seconds_of(number);
    // A step takes at least an M-cycle, or it ends the frame.
    for _ in 0..FRAME_CYCLES {
        let before = console.cycles();
        let stepped = console.advance(keys_at(script, number), seconds);
        seconds = 0;
        let [opcode, low, high] = stepped.met.bytes;
        if matches!(stepped.event, Event::Run { .. }) && opcode == LOAD_SP {
            return Err(u16::from_le_bytes([low, high]));
        }
        if let Some(ending) = console.ending(before + u16::from(stepped.cycles) >= FRAME_CYCLES) {
            return Ok(ending);
        }
    }
    Ok(Ending::Whole)
}

/// The stack region of a run that nobody names: the RAM below the address of the first LD SP,n16 that the run executes, or below SP at
/// power-up where it executes none. The console is played by the script from where it is, up to that instruction.
pub fn find_stack(console: &mut Console<'_>, script: &[u8], frames: u32) -> FoundStack {
    for number in 0..frames {
        match frame_loads(console, script, number) {
            Err(sp) => return region_below(sp),
            Ok(Ending::Whole) => {}
            Ok(Ending::Locked | Ending::Stopped) => return region_below(POWER_UP_SP),
        }
    }
    region_below(POWER_UP_SP)
}
