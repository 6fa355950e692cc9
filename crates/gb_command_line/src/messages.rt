//! The verdict's line, and what a program of this name says on standard error.

ghost use Rattle.std.specs.Prelude.{◌≡◌};
ghost use Rattle.gb_command_line.specs.declared.status.Status.TheVariants as status;

use crate::status::{Status, verify_status};
use gb_cert_place::place::{Sought, fault_place};
use gb_explain::{HeaderFault, Outcome, Plain, Rom, verify_bytes};
use gb_files::{Trouble, shown_name};
use std::io;

/// The names of the cartridge's and of the certificate's file, in messages.
#[derive(Clone, Copy)]
pub struct FileNames<'a> {
    pub rom: &'a str,
    pub cert: &'a str,
}

/// Prints the verdict's line of a cartridge and a certificate. Where it is that a file isn't valid, or that memory ran out,
/// standard error names the file and says why.
pub fn verify<R: Print + Eprint + AllocGlobal>(
    rt: &R,
    program: &str,
    names: FileNames<'_>,
    rom: &[u8],
    cert: &[u8],
) -> Status {
    let mut out = Plain::new(io::writer(rt));
    let outcome = match verify_bytes(rt.alloc(), rom, cert, &mut out) {
        Ok(outcome) => outcome,
        Err(_) => return tell_output(rt, program),
    };
    if outcome == Outcome::NoMemory {
        tell_memory(rt, program, names.cert);
    }
    if outcome == Outcome::Unreadable {
        tell_unreadable(rt, program, names, rom, cert);
    }
    verify_status(outcome)
}

/// Says that there isn't enough memory to work on a file.
pub fn tell_memory<R: Eprint>(rt: &R, program: &str, name: &str) {
    let name = shown_name(name);
    let _ = eprintln!(rt; "{program}: {name}: not enough memory");
}

/// What is wrong with a cartridge.
fn cartridge_text(fault: HeaderFault) -> &'static str {
    match fault {
        HeaderFault::TooShort => "the file is too short for a header",
        HeaderFault::Type => "the cartridge type ($0147) isn't ROM, MBC1, MBC3 or MBC5",
        HeaderFault::RomSize => "the ROM size ($0148) isn't valid",
        HeaderFault::Length =>
            "the file's length isn't the ROM size ($0148): pad it, as `rgbfix -p 0xFF` does",
        HeaderFault::RamSize => "the RAM size ($0149) isn't valid",
        HeaderFault::TooLarge => "it is too large for its cartridge type ($0147)",
        HeaderFault::Checksum => "the header checksum ($014D) is wrong: run `rgbfix -v` or makebin",
    }
}

/// Says what is wrong with a cartridge, or else where a certificate's fault is.
fn tell_unreadable<R: Eprint + AllocGlobal>(
    rt: &R,
    program: &str,
    names: FileNames<'_>,
    rom: &[u8],
    cert: &[u8],
) {
    match Rom::parse(rom) {
        Ok(_) => tell_fault(rt, program, names.cert, cert),
        Err(fault) => tell_cartridge(rt, program, names.rom, fault),
    }
}

/// Says what is wrong with a cartridge.
pub fn tell_cartridge<R: Eprint>(rt: &R, program: &str, name: &str, fault: HeaderFault) {
    let name = shown_name(name);
    let text = cartridge_text(fault);
    let _ = eprintln!(rt; "{program}: {name}: not a valid ROM: {text}");
}

/// Prints that memory or a device failed.
pub fn complain<R: Print>(rt: &R, trouble: Trouble) -> Status
    ensures { result ≡ status.Failed }
{
    let _ = rt.println(trouble.line());
    Status::Failed
}

/// Says that standard output can't be written.
pub fn tell_output<R: Eprint>(rt: &R, program: &str) -> Status
    ensures { result ≡ status.Failed }
{
    let _ = eprintln!(rt; "{program}: can't write to standard output");
    Status::Failed
}

/// Says where in a certificate's file its fault is, if it has one. The bytes are read again; where that takes more memory than
/// there is, nothing is said.
pub fn tell_fault<R: Eprint + AllocGlobal>(rt: &R, program: &str, name: &str, cert: &[u8]) {
    if let Sought::Fault(place) = fault_place(rt.alloc(), cert) {
        let name = shown_name(name);
        let _ = eprintln!(rt; "{program}: {name}: {place}");
    }
}
