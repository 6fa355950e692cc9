//! Files of symbols, read whole, and certificates, written whole.

use crate::messages::{PROGRAM, tell_written};
use gb_command_line::{Trouble, is_input, read_file};
use std::fs;
use std::io::{self, Input};
use std::rt::Files;

/// Writes a file. Standard error names one that can't be written and says why.
pub fn write_file<R: Eprint + Files>(rt: &R, name: &str, bytes: &[u8]) -> Result<(), Trouble> {
    match fs::write(rt, name, bytes) {
        Ok(()) => Ok(()),
        Err(error) => {
            tell_written(rt, name, &error);
            Err(Trouble::from(error))
        }
    }
}

/// Whether there is something by a name that is no plain file, as a device.
pub fn is_special<R: Files>(rt: &R, name: &str) -> bool {
    match fs::metadata(rt, name) {
        Ok(metadata) => !metadata.is_file(),
        Err(_) => false,
    }
}

/// Whether a file that would be read isn't there.
pub fn is_missing<R: Files>(rt: &R, name: &str) -> bool {
    match fs::metadata(rt, name) {
        Ok(_) => false,
        Err(error) => !is_input(name) && error.kind() == io::ErrorKind::NotFound,
    }
}

/// Writes a file under another name first, so that the one that was there stays until the new one is whole.
fn replace_file<R: Files>(rt: &R, name: &str, part: &str, bytes: &[u8]) -> io::Result<()> {
    let replaced = match fs::write(rt, part, bytes) {
        Ok(()) => fs::rename(rt, part, name),
        Err(error) => Err(error),
    };
    if replaced.is_err() {
        let _ = fs::remove_file(rt, part);
    }
    replaced
}

/// Writes a file whole or not at all: it is called NAME.part until all of it is there. What is no plain file is written in
/// place. Standard error names a file that can't be written and says why.
pub fn write_whole<R: Eprint + Files + AllocGlobal>(
    rt: &R,
    name: &str,
    bytes: &[u8],
) -> Result<(), Trouble> {
    if is_special(rt, name) {
        return write_file(rt, name, bytes);
    }
    let part = format!(in rt.alloc(); "{name}.part")?;
    match replace_file(rt, name, part.as_str(), bytes) {
        Ok(()) => Ok(()),
        Err(error) => {
            tell_written(rt, name, &error);
            Err(Trouble::from(error))
        }
    }
}
