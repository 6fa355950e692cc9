//! What a program of one's own calls: the checker and the console, in a few lines each.

ghost use Rattle.std.specs.Prelude.{◌≡◌, true};
ghost use Rattle.gb_events.specs.Below.gb_console.Below.gb_verify.Text.{IsVerified};

use bitflags::Flags;
use gb_events::gb_trace::{Console, Keys, Outcome, verify_bytes};
use gb_text::{KeptBytes, Rom};
use std::alloc::{AllocError, Global};

/// Whether a certificate shows that every run of a cartridge is safe. Where memory ran out, or a file can't be read, it
/// doesn't.
pub fn is_shown_safe(alloc: Global, rom: &[u8], cert: &[u8]) -> bool
    ensures { result ≡ true → IsVerified rom.now cert.now }
{
    let mut line = KeptBytes::new(96, 96);
    match verify_bytes(alloc, rom, cert, &mut line) {
        Ok(Outcome::Accepted) => true,
        Ok(Outcome::Refused | Outcome::Unreadable | Outcome::NoMemory) | Err(_) => false,
    }
}

/// The shade, 0 to 3, in the middle of the screen after so many frames with no key held.
///
/// # Errors
///
/// AllocError where there is no room for a console.
pub fn shade_after(alloc: Global, rom: &Rom<'_>, frames: u32) -> Result<u8, AllocError> {
    let mut console = Console::new(alloc, rom)?;
    for _ in 0..frames {
        let _ending = console.frame(Keys::empty(), 0);
    }
    Ok(console.screen()[72][80])
}
