//! An older certificate, and what a new one changed since then.

use crate::messages::PROGRAM;
use crate::perform::work;
use crate::words::{CertifyTask, OlderBuild};
use gb_command_line::messages::{FileNames, tell_output, verify};
use gb_command_line::status::Status;
use gb_command_line::symbols::{read_symbols, tell_symbols};
use gb_command_line::{Cert, Rom, Trouble, read_cartridge, read_certificate};
use gb_page::{Changes, Older, Symbols, changes_json};
use std::alloc::{AllocError, Global};
use std::io::Input;
use std::rt::{Clock, Files};

/// The older files' bytes; none of those that aren't named.
#[derive(Drop)]
pub struct OldFiles {
    cert: Vec<u8>,
    rom: Vec<u8>,
    symbols: Vec<u8>,
}

/// Reads the older cartridge, if one is named.
fn read_rom<R: Eprint + Input + Files + AllocGlobal>(
    rt: &R,
    name: Option<&str>,
) -> Result<Vec<u8>, Trouble> {
    match name {
        Some(name) => read_cartridge(rt, PROGRAM, name),
        None => Ok(Vec::new(rt.alloc())),
    }
}

/// Reads the older files.
pub fn read_before<R: Eprint + Input + Files + AllocGlobal>(
    rt: &R,
    before: &OlderBuild<'_>,
) -> Result<OldFiles, Trouble> {
    Ok(OldFiles {
        cert: read_certificate(rt, PROGRAM, before.cert)?,
        rom: read_rom(rt, before.rom)?,
        symbols: read_symbols(rt, PROGRAM, before.symbols)?,
    })
}

/// Does what a task says, with an older certificate and its symbols, if they are named.
fn work_with_certificate<'x, R: Print + Eprint + Input + Files + Clock + AllocGlobal>(
    rt: &R,
    task: &CertifyTask<'_>,
    bytes: &[u8],
    symbols: &Symbols<'_>,
    cert: &'x Cert<'_>,
    old: Option<&'x Symbols<'_>>,
    is_shown: bool,
) -> Result<Status, Trouble> {
    let older = Older {
        cert,
        rom: None,
        symbols: old,
    };
    work(rt, task, bytes, symbols, Some(&older), is_shown)
}

/// Compares with the older build, whose cartridge is given.
fn work_with_cartridge<'x, R: Print + Eprint + Input + Files + Clock + AllocGlobal>(
    rt: &R,
    task: &CertifyTask<'_>,
    bytes: &[u8],
    symbols: &Symbols<'_>,
    rom: &'x Rom<'_>,
    cert: &'x Cert<'_>,
    old: Option<&'x Symbols<'_>>,
    is_shown: bool,
) -> Result<Status, Trouble> {
    let older = Older {
        cert,
        rom: Some(rom),
        symbols: old,
    };
    work(rt, task, bytes, symbols, Some(&older), is_shown)
}

/// Compares with the older build, and reads its cartridge if it is named.
fn work_with_files<'x, R: Print + Eprint + Input + Files + Clock + AllocGlobal>(
    rt: &R,
    task: &CertifyTask<'_>,
    bytes: &[u8],
    symbols: &Symbols<'_>,
    files: &OldFiles,
    cert: &'x Cert<'_>,
    old: Option<&'x Symbols<'_>>,
    is_shown: bool,
) -> Result<Status, Trouble> {
    let Some(
        OlderBuild {
            rom: Some(name),
            ..
        },
    ) = task.before
    else {
        return work_with_certificate(rt, task, bytes, symbols, cert, old, is_shown);
    };
    let Ok(rom) = Rom::parse(&files.rom) else {
        // The line says what is wrong with the cartridge.
        let names = FileNames {
            rom: name,
            cert: task.cert,
        };
        return Ok(verify(rt, PROGRAM, names, &files.rom, b""));
    };
    work_with_cartridge(rt, task, bytes, symbols, &rom, cert, old, is_shown)
}

/// Does what a task says, with an older certificate.
pub fn work_with_older<R: Print + Eprint + Input + Files + Clock + AllocGlobal>(
    rt: &R,
    task: &CertifyTask<'_>,
    before: &OlderBuild<'_>,
    files: &OldFiles,
    bytes: &[u8],
    symbols: &Symbols<'_>,
    is_shown: bool,
) -> Result<Status, Trouble> {
    let Ok(cert) = Cert::parse(rt.alloc(), &files.cert) else {
        // The line says what is wrong with the certificate.
        let names = FileNames {
            rom: task.rom,
            cert: before.cert,
        };
        return Ok(verify(rt, PROGRAM, names, bytes, &files.cert));
    };
    match (Symbols::parse(rt.alloc(), &files.symbols), before.symbols) {
        (Ok(old), Some(_)) => {
            work_with_files(rt, task, bytes, symbols, files, &cert, Some(&old), is_shown)
        }
        (Ok(_), None) => work_with_files(rt, task, bytes, symbols, files, &cert, None, is_shown),
        (Err(fault), Some(name)) => tell_symbols(rt, PROGRAM, name, fault),
        (Err(_), None) => Err(Trouble::Memory),
    }
}

/// What a certificate changed, if it can be read and there is an older one.
pub fn changes_of(
    alloc: Global,
    rom: &Rom<'_>,
    cert: &Cert<'_>,
    symbols: &Symbols<'_>,
    older: Option<&Older<'_, '_, '_, '_>>,
) -> Result<Option<Changes>, AllocError> {
    match older {
        Some(older) => Ok(Some(Changes::of(alloc, rom, cert, symbols, older)?)),
        None => Ok(None),
    }
}

/// Prints what was changed: a line each, or as JSON in one.
fn print_changes<R: Print + Eprint + AllocGlobal>(
    rt: &R,
    is_json: bool,
    changes: &Changes,
) -> Result<Status, Trouble> {
    let printed = if is_json {
        let text = changes_json(rt.alloc(), changes)?;
        rt.println(text.as_str())
    } else {
        print!(rt; "{changes}")
    };
    match printed {
        Ok(()) if changes.is_none() => Ok(Status::Done),
        Ok(()) => Ok(Status::Refused),
        Err(_) => Ok(tell_output(rt, PROGRAM)),
    }
}

/// Prints the verdict's line, and after one that accepts what was changed.
pub fn tell_verdict<R: Print + Eprint + AllocGlobal>(
    rt: &R,
    task: &CertifyTask<'_>,
    bytes: &[u8],
    cert_bytes: &[u8],
    changes: Option<&Changes>,
) -> Result<Status, Trouble> {
    match (
        verify(rt, PROGRAM, task.names(), bytes, cert_bytes),
        changes,
    ) {
        (Status::Done, Some(changes)) => print_changes(rt, task.is_json, changes),
        (status, _) => Ok(status),
    }
}

/// Prints what a certificate that was just made changed.
pub fn tell_made<R: Print + Eprint + AllocGlobal>(
    rt: &R,
    task: &CertifyTask<'_>,
    bytes: &[u8],
    cert_bytes: &[u8],
    symbols: &Symbols<'_>,
    older: Option<&Older<'_, '_, '_, '_>>,
) -> Result<Status, Trouble> {
    let (Ok(rom), Ok(cert)) = (Rom::parse(bytes), Cert::parse(rt.alloc(), cert_bytes)) else {
        return Ok(verify(rt, PROGRAM, task.names(), bytes, cert_bytes));
    };
    let changes = changes_of(rt.alloc(), &rom, &cert, symbols, older)?;
    tell_verdict(rt, task, bytes, cert_bytes, changes.as_ref())
}
