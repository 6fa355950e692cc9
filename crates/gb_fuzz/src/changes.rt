//! Changes that an example names: bytes of its certificate, lengths of its files, and frames behind its end.

use crate::claims::Claims;
use crate::meaning::is_said;
use crate::random::Random;
use crate::reached::{SEEN, reached_states};
use bitflags::Flags;
use gb_header::Rom;
use gb_printed::gb_calls::gb_cert::Cert;
use gb_printed::{Console, Ending, Verdict, check, verify_bytes};
use gb_samples::cartridges::put;
use gb_samples::spelled::{Example, word_of};
use gb_text::kept_bytes::KeptBytes;
use gb_timer::irqs::Keys;
use std::alloc::Global;
use std::io::{self, Write};

/// Puts bytes at their offsets: `117=05 134=01`, the offsets decimal, the bytes hexadecimal.
fn replace(bytes: &mut [u8], changes: &str) {
    for change in changes.split(' ') {
        if let Some((offset, byte)) = change.split_once('=') {
            let offset = offset.parse::<usize>().unwrap_or(usize::MAX);
            put(bytes, offset, &[u8::from_str_radix(byte, 16).unwrap_or(0)]);
        }
    }
}

/// Writes what `check` answers of the cartridge and the certificate with these bytes.
pub fn write_verdict<W: Write>(
    alloc: Global,
    out: &mut W,
    example: &Example,
    changes: &str,
) -> io::Result<()> {
    let mut bytes = Vec::from_slice(alloc, example.cert.as_slice())?;
    replace(bytes.as_mut_slice(), changes);
    write!(out, "{changes}: ")?;
    let Ok(rom) = Rom::parse(example.rom.as_slice()) else {
        return writeln!(out, "no cartridge");
    };
    let Ok(cert) = Cert::parse(alloc, bytes.as_slice()) else {
        return writeln!(out, "no certificate");
    };
    match check(&rom, &cert) {
        Verdict::Accepted { nodes, procedures } => {
            writeln!(out, "accepted, nodes {nodes} procedures {procedures}")
        }
        Verdict::Refused { node, reason } => {
            writeln!(out, "refused, node {node} reason {}", reason.number())
        }
    }
}

/// Whether the machine holds what a certificate with these bytes says in the states that the cartridge reaches.
fn is_held(alloc: Global, rom: &Rom<'_>, bytes: &[u8]) -> io::Result<bool> {
    let mut reached = reached_states(alloc, rom, SEEN)?;
    let mut claims = Claims::new();
    Ok(is_said(alloc, reached.as_mut_slice(), bytes, &mut claims))
}

/// Plants a wrong claim of some kind into the certificate: bytes at their offsets. Writes whether the machine tells it from the right
/// one; the checker isn't asked.
pub fn write_planted<W: Write>(
    alloc: Global,
    out: &mut W,
    example: &Example,
    line: &str,
) -> io::Result<()> {
    let (kind, changes) = word_of(line);
    let mut bytes = Vec::from_slice(alloc, example.cert.as_slice())?;
    replace(bytes.as_mut_slice(), changes);
    write!(out, "{kind} {changes}: ")?;
    let Ok(rom) = Rom::parse(example.rom.as_slice()) else {
        return writeln!(out, "no cartridge");
    };
    if Cert::parse(alloc, bytes.as_slice()).is_err() {
        return writeln!(out, "no certificate");
    }
    let is_right = is_held(alloc, &rom, example.cert.as_slice())?;
    if is_right && !is_held(alloc, &rom, bytes.as_slice())? {
        writeln!(out, "the wrong claim is seen")
    } else {
        writeln!(out, "the wrong claim isn't seen")
    }
}

/// Whether the files have this line.
fn is_line(alloc: Global, rom: &[u8], cert: &[u8], line: &[u8]) -> bool {
    let mut out = KeptBytes::new(96, 96);
    verify_bytes(alloc, rom, cert, &mut out).is_ok() && out.kept() == line
}

/// Cuts the cartridge off at each of its lengths, and then the certificate; says how many haven't the line of a file that
/// is cut.
pub fn write_cuts<W: Write>(alloc: Global, out: &mut W, example: &Example) -> io::Result<()> {
    let (rom, cert) = (example.rom.as_slice(), example.cert.as_slice());
    let mut wrong = 0u64;
    for length in 0..rom.len() {
        let cut = rom.get(..length).unwrap_or(&[]);
        if !is_line(alloc, cut, cert, b"CARTRIDGE H1\n") {
            wrong = wrong.wrapping_add(1);
        }
    }
    for length in 0..cert.len() {
        let cut = cert.get(..length).unwrap_or(&[]);
        if !is_line(alloc, rom, cut, b"CERTIFICATE C1\n") {
            wrong = wrong.wrapping_add(1);
        }
    }
    writeln!(
        out,
        "{} cut cartridges and {} cut certificates, {wrong} wrong",
        rom.len(),
        cert.len()
    )
}

/// Whether frames with random keys and seconds end so, and leave the screen and the address as they are.
fn stays(console: &mut Console<'_>, random: &mut Random, ending: Ending, frames: usize) -> bool {
    let (screen, pc) = (*console.screen(), console.pc());
    for _ in 0..frames {
        let keys = Keys::from_bits_retain(random.byte());
        if console.frame(keys, 1) != ending {
            return false;
        }
    }
    console.pc() == pc && *console.screen() == screen
}

/// Runs a frame, and says how it ends; then so many more.
pub fn write_stay<W: Write>(
    alloc: Global,
    out: &mut W,
    random: &mut Random,
    example: &Example,
    frames: usize,
) -> io::Result<()> {
    let Ok(rom) = Rom::parse(example.rom.as_slice()) else {
        return writeln!(out, "no cartridge");
    };
    let mut console = Console::new(alloc, &rom)?;
    let ending = console.frame(Keys::from_bits_retain(0), 0);
    let name = match ending {
        Ending::Whole => "whole",
        Ending::Locked => "locked",
        Ending::Stopped => "stopped",
    };
    write!(out, "{name} at {:04X}", console.pc())?;
    if stays(&mut console, random, ending, frames) {
        writeln!(out, ", and {frames} more frames change nothing")
    } else {
        writeln!(out, ", and {frames} more frames change something")
    }
}
