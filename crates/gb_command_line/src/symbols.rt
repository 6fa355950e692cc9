//! A file of symbols that the words name.

use crate::status::Status;
use gb_files::{Trouble, read_file, shown_name};
use gb_symbols::{SymbolFault, SymbolFaultKind};
use std::io::Input;
use std::rt::Files;

/// The most bytes that are read of a file of symbols.
const SYMBOLS_LIMIT: u64 = 64_000_000;

/// Reads a file of symbols, if one is named.
///
/// # Errors
///
/// Trouble where memory ran out or the file can't be read; a line on standard error then names the file and says why.
pub fn read_symbols<R: Eprint + Input + Files + AllocGlobal>(
    rt: &R,
    program: &str,
    name: Option<&str>,
) -> Result<Vec<u8>, Trouble> {
    match name {
        None => Ok(Vec::new(rt.alloc())),
        Some(name) => read_file(rt, program, name, SYMBOLS_LIMIT),
    }
}

/// Says what is wrong with a file of symbols or of lines.
///
/// # Errors
///
/// Trouble where it is that memory ran out.
pub fn tell_symbols<R: Eprint>(
    rt: &R,
    program: &str,
    name: &str,
    fault: SymbolFault,
) -> Result<Status, Trouble> {
    let shown = shown_name(name);
    let _ = eprintln!(rt; "{program}: {shown}: {fault}");
    match fault.kind {
        SymbolFaultKind::Memory => Err(Trouble::Memory),
        _ => Ok(Status::Unreadable),
    }
}
