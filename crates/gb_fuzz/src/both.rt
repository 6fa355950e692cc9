//! Cartridges and certificates that are changed at once: where the one still fits the other, the cartridge runs.

use crate::cartridges::{FEW, runs};
use crate::certificates::{Aim, Certificates, ToldVerdict, agree_on_verdict, changed_by};
use crate::claims::Claims;
use crate::meaning::is_said;
use crate::random::Random;
use crate::reached::reached_states;
use crate::tally::Tally;
use gb_header::Rom;
use gb_printed::gb_calls::gb_cert::Cert;
use std::alloc::Global;
use std::io;

/// How many bytes the code of the examples has, and some behind it.
const CODE: usize = 0x18;

/// About how many states of a changed cartridge are taken at random in each of its two runs.
const SEEN: usize = 16;

/// Changes a byte of the code behind the header, or of the handlers, and tells where it stood and what it was.
fn change_code(random: &mut Random, rom: &mut [u8]) -> (usize, u8) {
    let at = match random.below(4) {
        0 => random.below(0x68),
        _ => 0x150 + random.below(CODE),
    };
    match rom.get_mut(at) {
        Some(byte) => {
            let kept = *byte;
            *byte = random.changed(kept);
            (at, kept)
        }
        None => (at, 0),
    }
}

/// Whether a cartridge that is accepted runs, and the certificate says what its console reaches.
fn runs_as_said(
    alloc: Global,
    random: &mut Random,
    rom: &Rom<'_>,
    bytes: &[u8],
    claims: &mut Claims,
) -> io::Result<bool> {
    if !runs(alloc, random, rom, FEW) {
        return Ok(false);
    }
    let mut reached = reached_states(alloc, rom, SEEN)?;
    Ok(is_said(alloc, reached.as_mut_slice(), bytes, claims))
}

/// What the verdict is on these bytes; a cartridge that is accepted runs, each state as the certificate says.
fn judge(alloc: Global, random: &mut Random, file: &[u8], bytes: &[u8]) -> io::Result<Tally> {
    let mut tally = Tally::new();
    let fault = Cert::parse(alloc, bytes).err();
    let is_right = match (
        Rom::parse(file),
        agree_on_verdict(alloc, file, bytes, fault),
    ) {
        (Ok(rom), Some(ToldVerdict::Accepted)) => {
            tally.count_accepted();
            runs_as_said(alloc, random, &rom, bytes, &mut tally.claims)?
        }
        (Ok(_), Some(ToldVerdict::Refused { reason })) => {
            tally.note_reason(reason);
            true
        }
        (Ok(_), Some(ToldVerdict::Unreadable)) => true,
        _ => false,
    };
    tally.count(is_right);
    Ok(tally)
}

/// Changes so many times a byte of the cartridge's code, and mostly the certificate too. The header stays, so that the
/// cartridge can be read.
pub fn storm(
    alloc: Global,
    random: &mut Random,
    rom: &mut [u8],
    cert: &[u8],
    count: usize,
) -> io::Result<Certificates> {
    let mut met = Certificates::new();
    for _ in 0..count {
        let changes = random.below(3);
        let aim = if cert.starts_with(b"GBBX\x04") && random.below(2) == 0 {
            Aim::Parts
        } else {
            Aim::Bytes
        };
        let bytes = changed_by(alloc, random, cert, aim, changes)?;
        let (at, kept) = change_code(random, rom);
        let one = judge(alloc, random, rom, bytes.as_slice());
        if let Some(byte) = rom.get_mut(at) {
            *byte = kept;
        }
        met.add(bytes.as_slice(), &one?);
    }
    Ok(met)
}
