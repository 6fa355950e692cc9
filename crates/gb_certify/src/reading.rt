//! A certificate that is there: its refusal explained, or its nodes listed.

use crate::making::{made, tell_findings};
use crate::messages::PROGRAM;
use crate::words::CertifyTask;
use gb_command_line::messages::{tell_output, verify};
use gb_command_line::status::Status;
use gb_command_line::{Cert, Rom, Trouble, read_certificate, shown_name};
use gb_page::{Explanation, Listing, Symbols, explain, named};
use gb_refine::Made;
use std::alloc::{AllocError, Global};
use std::io::Input;
use std::rt::{Clock, Files};

/// What there is to say of a refusal, with symbols after the addresses of RAM.
fn named_refusal(
    alloc: Global,
    explanation: &Explanation,
    symbols: &Symbols<'_>,
) -> Result<String, AllocError> {
    let text = format!(in alloc; "{explanation}")?;
    named(alloc, symbols, text.as_str())
}

/// Says why a certificate is refused, with the node's label before what gulmyrek says, and symbols after the addresses of RAM if
/// there is memory for them.
fn tell_refusal<R: Eprint + AllocGlobal>(
    rt: &R,
    name: &str,
    rom: &[u8],
    cert: &[u8],
    symbols: &Symbols<'_>,
) {
    let Some(explanation) = explain(rt.alloc(), rom, cert) else {
        return;
    };
    let name = shown_name(name);
    let Ok(said) = named_refusal(rt.alloc(), &explanation, symbols) else {
        let _ = eprintln!(rt; "certify: {name}: {explanation}");
        return;
    };
    match symbols.place(explanation.bank, explanation.address) {
        Some(place) => {
            let _ = eprintln!(rt; "certify: {name}: in {place}, {said}");
        }
        None => {
            let _ = eprintln!(rt; "certify: {name}: {said}");
        }
    }
}

/// Says whether a new certificate can be made for the same cartridge.
fn tell_made<R: Eprint + Clock + AllocGlobal>(
    rt: &R,
    task: &CertifyTask<'_>,
    rom: &Rom<'_>,
    symbols: &Symbols<'_>,
    is_shown: bool,
) -> Result<(), Trouble> {
    match made(rt, task, rom, is_shown)? {
        Made::Certificate(_) => {
            let _ = eprintln!(rt;
                "certify: the game itself passes: run certify without --explain to make a new certificate"
            );
        }
        Made::Findings(findings) => {
            let _ = eprintln!(rt; "certify: a new certificate can't be made either:");
            tell_findings(rt, &findings, symbols);
        }
    }
    Ok(())
}

/// Prints the verdict's line of a certificate that is there, and says why it is refused.
pub fn explain_file<R: Print + Eprint + Input + Files + Clock + AllocGlobal>(
    rt: &R,
    task: &CertifyTask<'_>,
    bytes: &[u8],
    symbols: &Symbols<'_>,
    is_shown: bool,
) -> Result<Status, Trouble> {
    let cert = read_certificate(rt, PROGRAM, task.cert)?;
    let status = verify(rt, PROGRAM, task.names(), bytes, &cert);
    let Ok(rom) = Rom::parse(bytes) else {
        return Ok(status);
    };
    if status == Status::Refused {
        tell_refusal(rt, task.cert, bytes, &cert, symbols);
        tell_made(rt, task, &rom, symbols, is_shown)?;
    }
    Ok(status)
}

/// Prints the nodes of a certificate that is there, right or wrong.
pub fn list_file<R: Print + Eprint + Input + Files + AllocGlobal>(
    rt: &R,
    task: &CertifyTask<'_>,
    bytes: &[u8],
    symbols: &Symbols<'_>,
) -> Result<Status, Trouble> {
    let cert_bytes = read_certificate(rt, PROGRAM, task.cert)?;
    let (Ok(rom), Ok(cert)) = (Rom::parse(bytes), Cert::parse(rt.alloc(), &cert_bytes)) else {
        // The line says which file isn't valid, and why.
        return Ok(verify(rt, PROGRAM, task.names(), bytes, &cert_bytes));
    };
    let listing = Listing {
        rom: &rom,
        cert: &cert,
        symbols: &*symbols,
    };
    match print!(rt; "{listing}") {
        Ok(()) => Ok(Status::Done),
        Err(_) => Ok(tell_output(rt, PROGRAM)),
    }
}
