//! What the program alone says on standard error.

use gb_command_line::{Rom, shown_name};
use gb_page::color_note;
use std::io;

/// The program's name, in its messages.
pub(crate) const PROGRAM: &str = "certify";

/// Says why a file can't be written.
pub fn tell_written<R: Eprint>(rt: &R, name: &str, error: &io::Error) {
    let _ = match error.kind() {
        io::ErrorKind::NotFound => eprintln!(rt; "certify: {name}: no such folder"),
        io::ErrorKind::PermissionDenied => eprintln!(rt;
            "certify: {name}: no permission to write it"
        ),
        io::ErrorKind::IsADirectory => eprintln!(rt; "certify: {name}: is a folder"),
        io::ErrorKind::OutOfMemory => eprintln!(rt;
            "certify: {name}: not enough memory to write it"
        ),
        _ => eprintln!(rt; "certify: {name}: {error}"),
    };
}

/// Says that a cartridge for the Color is analysed as on a DMG.
pub fn tell_color<R: Eprint>(rt: &R, name: &str, bytes: &[u8]) {
    if let Ok(rom) = Rom::parse(bytes)
        && let Some(note) = color_note(&rom)
    {
        let name = shown_name(name);
        let _ = eprintln!(rt; "{PROGRAM}: {name}: {note}");
    }
}
