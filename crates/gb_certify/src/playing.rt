//! The console plays a cartridge, for a picture of its screen.

use bitflags::Flags;
use gb_command_line::{Cert, Rom};
use gb_hunt::{Console, Keys, Verdict, check};
use std::alloc::{AllocError, Global};

/// The frames that are played.
const FRAMES: u32 = 120;

/// Whether a certificate is accepted.
pub fn is_right(rom: &Rom<'_>, cert: &Cert<'_>) -> bool {
    matches!(check(rom, cert), Verdict::Accepted { .. })
}

/// A console that has played a cartridge from power-up with no key pressed, as `gulmyrek run` does: a second passes with each
/// sixtieth frame.
pub fn played<'r>(alloc: Global, rom: &Rom<'r>) -> Result<Console<'r>, AllocError> {
    let mut console = Console::new(alloc, rom)?;
    for frame in 0..FRAMES {
        console.frame(Keys::from_bits_retain(0), u32::from(frame % 60 == 59));
    }
    Ok(console)
}
