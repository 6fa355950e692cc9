//! Changed certificates: what the calls that read them say has to agree.

ghost use Rattle.std.specs.Prelude.{◌≡◌, false};

use crate::edits::edited;
use crate::meaning::is_said;
use crate::random::Random;
use crate::reached::ReachedState;
use crate::tally::Tally;
use gb_cert_place::place::{Sought, fault_place};
use gb_printed::gb_calls::gb_cert::{Cert, CertFault, encode};
use gb_printed::{Outcome, UpgradeTo, Upgraded, show_bytes, upgrade_bytes, verify_bytes};
use gb_text::kept_bytes::KeptBytes;
use std::alloc::Global;
use std::io;

/// Room for what is written of the certificates that are changed here.
const ROOM: usize = 12_288;

fn sink() -> KeptBytes
    ensures { result.has_failed ≡ false }
{
    KeptBytes::new(ROOM, ROOM)
}

/// Changes, inserts or takes away a byte, or cuts off what is behind it.
fn change(random: &mut Random, bytes: &mut Vec<u8>) -> io::Result<()> {
    if bytes.is_empty() {
        return Ok(());
    }
    // Half of the changes are near the head and the first node's core.
    let near = bytes
        .len()
        .min(if random.below(2) == 0 { 64 } else { usize::MAX });
    let at = random.below(near);
    match random.below(16) {
        0 => bytes.truncate(at),
        1 => bytes.insert(at, random.byte())?,
        2 => {
            bytes.remove(at);
        }
        3 => bytes.push(random.byte())?,
        _ => bytes[at] = random.changed(bytes[at]),
    }
    Ok(())
}

/// The line of a fault.
fn fault_line(fault: CertFault) -> [u8; 15] {
    let mut line = *b"CERTIFICATE C0\n";
    line[13] = b'0'.wrapping_add(fault.number());
    line
}

/// Whether the place of a fault is told: reading has that fault, and the place lies in the file.
fn is_placed(alloc: Global, bytes: &[u8]) -> bool {
    match (Cert::parse(alloc, bytes), fault_place(alloc, bytes)) {
        (Ok(_), Sought::Certificate) => true,
        (Err(fault), Sought::Fault(place)) => {
            place.fault == fault && place.offset <= place.end && place.end <= bytes.len()
        }
        _ => false,
    }
}

/// Whether `show` and `upgrade` write a fault's line, and its place is told.
fn agree_on_fault(alloc: Global, bytes: &[u8], fault: CertFault) -> bool {
    let line = fault_line(fault);
    let (mut shown, mut upgraded) = (sink(), sink());
    let is_told = show_bytes(alloc, bytes, &mut shown) == Ok(Some(fault))
        && upgrade_bytes(alloc, bytes, UpgradeTo::Two, &mut upgraded) == Ok(Upgraded::Unreadable)
        && shown.kept() == line.as_slice()
        && upgraded.kept() == line.as_slice();
    is_told && is_placed(alloc, bytes)
}

/// Whether a certificate's bytes in a version, or in version 3 as before, are read as so many nodes and procedures, and are
/// their own.
fn agree_on_upgrade(alloc: Global, bytes: &[u8], to: UpgradeTo, before: &Cert<'_>) -> bool {
    let mut again = sink();
    let version = match to {
        UpgradeTo::Two => 2,
        UpgradeTo::Three => 3,
    };
    match Cert::parse(alloc, bytes) {
        Ok(cert) => {
            cert.version() == before.version().max(version)
                && cert.nodes() == before.nodes()
                && cert.procedures() == before.procedures()
                && upgrade_bytes(alloc, bytes, to, &mut again) == Ok(Upgraded::Written)
                && again.kept() == bytes
        }
        Err(_) => false,
    }
}

/// Whether it can be upgraded to a version.
fn can_be_upgraded(alloc: Global, bytes: &[u8], to: UpgradeTo, cert: &Cert<'_>) -> bool {
    let mut upgraded = sink();
    upgrade_bytes(alloc, bytes, to, &mut upgraded) == Ok(Upgraded::Written)
        && agree_on_upgrade(alloc, upgraded.kept(), to, cert)
}

/// How many lines `show` has: one for the region, one for each fact, procedure and node, and one more for each procedure that keeps
/// bytes or has a mark.
fn shown_lines(cert: &Cert<'_>) -> u64 {
    let mut lines = u64::from(cert.nodes())
        .saturating_add(u64::from(cert.procedures()))
        .saturating_add(cert.facts().len() as u64)
        .saturating_add(1);
    for number in 0..cert.procedures() {
        let procedure = cert.procedure(number);
        if !procedure.kept().is_empty() || procedure.mark() > 0 {
            lines = lines.saturating_add(1);
        }
    }
    lines
}

/// Whether a certificate is written as it was read, `show` has all its lines, and the upgraded one says the same.
fn agree_on_certificate(alloc: Global, bytes: &[u8], cert: &Cert<'_>) -> bool {
    let is_written = match encode(alloc, cert) {
        Ok(written) => written.as_slice() == bytes,
        Err(_) => false,
    };
    let mut shown = sink();
    let is_shown = show_bytes(alloc, bytes, &mut shown) == Ok(None);
    let lines = shown.kept().iter().filter(|byte| **byte == b'\n').count();
    let is_upgraded = can_be_upgraded(alloc, bytes, UpgradeTo::Two, cert)
        && can_be_upgraded(alloc, bytes, UpgradeTo::Three, cert);
    is_written
        && is_shown
        && is_upgraded
        && lines as u64 == shown_lines(cert)
        && fault_place(alloc, bytes) == Sought::Certificate
}

/// Whether one line was written, which begins so.
fn is_one_line(written: &[u8], beginning: &[u8]) -> bool {
    written.starts_with(beginning)
        && written.iter().position(|byte| *byte == b'\n') == written.len().checked_sub(1)
}

/// What the verdict's line tells.
#[derive(Clone, Copy)]
pub enum ToldVerdict {
    Accepted,
    Refused { reason: u8 },
    Unreadable,
}

/// The number in decimal digits at the end of a line; 0 where none stands there.
fn last_number(line: &[u8]) -> u8 {
    let mut number = 0u8;
    for byte in line {
        number = match *byte {
            b'0'..=b'9' => number.wrapping_mul(10).wrapping_add(*byte & 0x0F),
            b'\n' => number,
            _ => 0,
        };
    }
    number
}

/// What the verdict's line tells, if it is one, and of the kind that the outcome names.
pub fn agree_on_verdict(
    alloc: Global,
    rom: &[u8],
    bytes: &[u8],
    fault: Option<CertFault>,
) -> Option<ToldVerdict> {
    let mut out = sink();
    let outcome = verify_bytes(alloc, rom, bytes, &mut out).ok()?;
    let reason = last_number(out.kept());
    match (outcome, fault) {
        (Outcome::Accepted, None) if is_one_line(out.kept(), b"ACCEPTED nodes ") => {
            Some(ToldVerdict::Accepted)
        }
        (Outcome::Refused, None)
            if is_one_line(out.kept(), b"REFUSED node ") && (1..=17).contains(&reason) => {
            Some(ToldVerdict::Refused { reason })
        }
        (Outcome::Unreadable, Some(fault)) if out.kept() == fault_line(fault).as_slice() => {
            Some(ToldVerdict::Unreadable)
        }
        _ => None,
    }
}

/// What all calls say of these bytes, and whether they agree; of those that are accepted, whether they say what the console
/// reaches.
fn judge(alloc: Global, rom: &[u8], bytes: &[u8], reached: &mut [ReachedState<'_>]) -> Tally {
    let mut tally = Tally::new();
    let (fault, agree) = match Cert::parse(alloc, bytes) {
        Ok(cert) => {
            tally.count_readable();
            (None, agree_on_certificate(alloc, bytes, &cert))
        }
        Err(fault) => {
            tally.note(fault.number());
            (Some(fault), agree_on_fault(alloc, bytes, fault))
        }
    };
    let is_right = match agree_on_verdict(alloc, rom, bytes, fault) {
        Some(ToldVerdict::Accepted) => {
            tally.count_accepted();
            is_said(alloc, reached, bytes, &mut tally.claims)
        }
        Some(ToldVerdict::Refused { reason }) => {
            tally.note_reason(reason);
            true
        }
        Some(ToldVerdict::Unreadable) => true,
        None => false,
    };
    tally.count(agree && is_right);
    tally
}

/// A certificate with so many changes of its bytes.
fn changed(alloc: Global, random: &mut Random, cert: &[u8], count: usize) -> io::Result<Vec<u8>> {
    let mut bytes = Vec::from_slice(alloc, cert)?;
    for _ in 0..count {
        change(random, &mut bytes)?;
    }
    Ok(bytes)
}

/// What came of changed certificates.
#[derive(Clone, Copy)]
pub struct Certificates {
    pub all: Tally,
    /// Of those alone that begin as one of version 3 does.
    pub third: Tally,
    /// Of those alone that begin as one of version 4 does.
    pub fourth: Tally,
}

impl Certificates {
    pub fn new() -> Certificates {
        Certificates {
            all: Tally::new(),
            third: Tally::new(),
            fourth: Tally::new(),
        }
    }

    /// Both together.
    pub fn joined(&self, other: &Certificates) -> Certificates {
        Certificates {
            all: self.all.joined(&other.all),
            third: self.third.joined(&other.third),
            fourth: self.fourth.joined(&other.fourth),
        }
    }

    /// Adds what came of a certificate with these bytes.
    pub fn add(&mut self, bytes: &[u8], one: &Tally) {
        self.all = self.all.joined(one);
        if bytes.starts_with(b"GBBX\x03") {
            self.third = self.third.joined(one);
        }
        if bytes.starts_with(b"GBBX\x04") {
            self.fourth = self.fourth.joined(one);
        }
    }
}

/// What is changed in a certificate.
#[derive(Clone, Copy)]
pub enum Aim {
    /// Bytes, wherever they are.
    Bytes,
    /// Parts that version 4 has, so that most of what is written can be read.
    Parts,
}

/// A certificate with so many changes.
pub fn changed_by(
    alloc: Global,
    random: &mut Random,
    cert: &[u8],
    aim: Aim,
    count: usize,
) -> io::Result<Vec<u8>> {
    match aim {
        Aim::Bytes => changed(alloc, random, cert, count),
        Aim::Parts => edited(alloc, random, cert, count),
    }
}

/// Changes a certificate so many times, a few changes each, and puts it before the calls that read it. Those that are accepted
/// have to say what the console reaches.
pub fn storm(
    alloc: Global,
    random: &mut Random,
    (rom, cert): (&[u8], &[u8]),
    reached: &mut [ReachedState<'_>],
    aim: Aim,
    count: usize,
) -> io::Result<Certificates> {
    let mut met = Certificates::new();
    for _ in 0..count {
        let changes = 1 + random.below(3);
        let bytes = changed_by(alloc, random, cert, aim, changes)?;
        let one = judge(alloc, rom, bytes.as_slice(), reached);
        met.add(bytes.as_slice(), &one);
    }
    Ok(met)
}
