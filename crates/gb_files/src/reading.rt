//! Reading files and standard input to their end, or as far as a file of that kind can go.

ghost use Rattle.std.specs.Prelude.{◌≡◌};
ghost use Rattle.gb_files.specs.Input.{is_input};

use crate::trouble::Trouble;
use std::alloc::Global;
use std::fs;
use std::io::{self, Input, Read};
use std::rt::Files;

/// The most bytes that are read of a cartridge: one more than the largest has.
const CARTRIDGE_LIMIT: u64 = 8_388_609;

/// The most bytes that are read of a certificate: more than the largest has.
const CERTIFICATE_LIMIT: u64 = 320_000_000;

/// Whether a name is standard input's.
pub fn is_input(name: &str) -> bool
    ensures { result ≡ is_input name.now }
{
    name == "-"
}

/// A file's name in messages.
pub fn shown_name<'a>(name: &'a str) -> &'a str {
    if is_input(name) {
        "standard input"
    } else {
        name
    }
}

/// Says why a file can't be read.
fn tell<R: Eprint>(rt: &R, program: &str, name: &str, error: &io::Error) {
    let _ = match error.kind() {
        io::ErrorKind::NotFound => eprintln!(rt; "{program}: {name}: no such file"),
        io::ErrorKind::PermissionDenied => eprintln!(rt;
            "{program}: {name}: no permission to read it"
        ),
        io::ErrorKind::IsADirectory => eprintln!(rt; "{program}: {name}: is a folder"),
        io::ErrorKind::OutOfMemory => eprintln!(rt;
            "{program}: {name}: not enough memory to read it"
        ),
        _ => eprintln!(rt; "{program}: {name}: {error}"),
    };
}

/// Reads to the end, or so many bytes.
fn read_within<R: Read + Drop>(alloc: Global, reader: R, limit: u64) -> io::Result<Vec<u8>> {
    let mut bytes = Vec::new(alloc);
    reader.take(limit).read_to_end(&mut bytes)?;
    Ok(bytes)
}

/// Reads a file with this name to its end, or so many bytes.
fn read_named<R: Files + AllocGlobal>(rt: &R, name: &str, limit: u64) -> io::Result<Vec<u8>> {
    read_within(rt.alloc(), fs::open(rt, name)?, limit)
}

/// Reads a file, or standard input where its name is `-`, to its end or so many bytes.
///
/// # Errors
///
/// Trouble where memory ran out or the file can't be opened or read; a line on standard error then names the file and says why.
pub fn read_file<R: Eprint + Input + Files + AllocGlobal>(
    rt: &R,
    program: &str,
    name: &str,
    limit: u64,
) -> Result<Vec<u8>, Trouble> {
    let read = if is_input(name) {
        read_within(rt.alloc(), rt.reader(), limit)
    } else {
        read_named(rt, name, limit)
    };
    match read {
        Ok(bytes) => Ok(bytes),
        Err(error) => {
            tell(rt, program, shown_name(name), &error);
            Err(Trouble::from(error))
        }
    }
}

/// Reads a cartridge's file, or as much of it as shows that it isn't one.
///
/// # Errors
///
/// As `read_file`.
pub fn read_cartridge<R: Eprint + Input + Files + AllocGlobal>(
    rt: &R,
    program: &str,
    name: &str,
) -> Result<Vec<u8>, Trouble> {
    read_file(rt, program, name, CARTRIDGE_LIMIT)
}

/// Reads a certificate's file, or as much of it as shows that it isn't one.
///
/// # Errors
///
/// As `read_file`.
pub fn read_certificate<R: Eprint + Input + Files + AllocGlobal>(
    rt: &R,
    program: &str,
    name: &str,
) -> Result<Vec<u8>, Trouble> {
    read_file(rt, program, name, CERTIFICATE_LIMIT)
}
