//! A cartridge is run by the console.

use bitflags::Flags;
use gb_console::Keys;
use gb_console::console::Console;
use gb_console::frame::Ending;
use gb_text::Rom;
use std::alloc::Global;
use std::io::{self, Write};

/// The keys of frame k: those of a script, none behind its end; where there is none, those of the byte k modulo 256, so that
/// each set of keys comes.
fn held(script: &[u8], k: usize) -> u8 {
    if script.is_empty() {
        (k % 256) as u8
    } else {
        script.get(k).copied().unwrap_or(0)
    }
}

/// Runs frames as long as they are whole; answers the first that isn't.
fn first_cut(console: &mut Console<'_>, script: &[u8], frames: usize) -> Option<(usize, Ending)> {
    for k in 0..frames {
        let ending = console.frame(Keys::from_bits_retain(held(script, k)), 0);
        if ending != Ending::Whole {
            return Some((k, ending));
        }
    }
    None
}

/// Says how a run ended: in which frame, if one was cut off, and where.
fn tell_run<W: Write>(
    out: &mut W,
    frames: usize,
    cut: Option<(usize, Ending)>,
    pc: u16,
) -> io::Result<()> {
    match cut {
        Some((k, Ending::Locked)) => writeln!(out, "locked in frame {k} at {pc:04X}"),
        Some((k, Ending::Stopped)) => writeln!(out, "stopped in frame {k} at {pc:04X}"),
        _ => writeln!(out, "{frames} frames are whole"),
    }
}

/// Runs a cartridge from power-up by a script of keys for so many frames, and says how it ends.
pub fn run<W: Write>(
    alloc: Global,
    out: &mut W,
    cartridge: &[u8],
    script: &[u8],
    frames: usize,
) -> io::Result<()> {
    let Ok(rom) = Rom::parse(cartridge) else {
        return writeln!(out, "no cartridge");
    };
    let mut console = Console::new(alloc, &rom)?;
    let cut = first_cut(&mut console, script, frames);
    let pc = console.pc();
    drop(console);
    tell_run(out, frames, cut, pc)
}
