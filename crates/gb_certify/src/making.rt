//! A certificate is made, checked, and written where it is accepted.

use crate::compare::tell_made;
use crate::files::write_file;
use crate::hunting::NoCertificate;
use crate::messages::PROGRAM;
use crate::progress::RoundsShown;
use crate::words::{CertifyTask, Work};
use gb_command_line::messages::{tell_output, verify};
use gb_command_line::status::Status;
use gb_command_line::{
    Outcome, Plain, Rom, Trouble, UpgradeTo, Upgraded, upgrade_bytes, verify_bytes,
};
use gb_page::{CrashFinding, Finding, Older, ShownFinding, Symbols, crash_json, finding_json};
use gb_refine::{Made, SearchLimits, make};
use std::io;
use std::rt::{Clock, Files};

/// The most rounds of refinement.
const ROUNDS: u32 = 400;

/// Whether the checker accepts a certificate, which prints nothing.
pub fn is_accepted<R: AllocGlobal>(rt: &R, rom: &[u8], cert: &[u8]) -> bool {
    let mut out = Plain::new(io::sink());
    match verify_bytes(rt.alloc(), rom, cert, &mut out) {
        Ok(outcome) => outcome == Outcome::Accepted,
        Err(_) => false,
    }
}

/// Writes the certificate in version 3; whether it could be.
fn is_upgraded<R: AllocGlobal>(rt: &R, cert: &[u8], newest: &mut Vec<u8>) -> bool {
    let mut out = Plain::new(newest);
    upgrade_bytes(rt.alloc(), cert, UpgradeTo::Three, &mut out) == Ok(Upgraded::Written)
}

/// A certificate in version 3, where one of an earlier version was made, nobody has asked for its rules, and the checker
/// accepts it so too.
pub fn in_newest_version<R: AllocGlobal>(
    rt: &R,
    task: &CertifyTask<'_>,
    rom: &[u8],
    cert: Vec<u8>,
) -> Vec<u8> {
    if task.edition.is_some() {
        return cert;
    }
    let mut newest = Vec::new(rt.alloc());
    let is_written = is_upgraded(rt, &cert, &mut newest);
    if is_written && newest.as_slice() != cert.as_slice() && is_accepted(rt, rom, &newest) {
        newest
    } else {
        cert
    }
}

/// What the maker gives.
pub fn made<R: Eprint + Clock + AllocGlobal>(
    rt: &R,
    task: &CertifyTask<'_>,
    rom: &Rom<'_>,
    is_shown: bool,
) -> Result<Made, Trouble> {
    let limits = SearchLimits {
        nodes: task.nodes as usize,
        rounds: ROUNDS,
        region: task.region,
        edition: task.edition,
    };
    let mut progress = RoundsShown::new(rt, is_shown, task.seconds);
    Ok(make(rt.alloc(), rom, limits, &mut progress)?)
}

/// Prints a line of JSON; whether it could be.
fn print_line<R: Print>(rt: &R, text: &String) -> bool {
    rt.println(text.as_str()).is_ok()
}

/// Prints a crash and the findings as JSON, an object a line, on standard output.
fn print_json<R: Print + Eprint + AllocGlobal>(
    rt: &R,
    task: &CertifyTask<'_>,
    ended: &NoCertificate<'_>,
    symbols: &Symbols<'_>,
) -> Result<Status, Trouble> {
    if let Some(crash) = ended.crash() {
        let replay = crash.replay(rt.alloc(), task)?;
        let text = crash_json(rt.alloc(), &crash.facts(replay.as_str()), symbols)?;
        if !print_line(rt, &text) {
            return Ok(tell_output(rt, PROGRAM));
        }
    }
    for finding in &ended.findings {
        let text = finding_json(rt.alloc(), finding, symbols)?;
        if !print_line(rt, &text) {
            return Ok(tell_output(rt, PROGRAM));
        }
    }
    Ok(Status::Refused)
}

/// Prints findings on standard error.
pub fn tell_findings<R: Eprint>(rt: &R, findings: &[Finding], symbols: &Symbols<'_>) {
    for (number, finding) in findings.iter().enumerate() {
        let number = number.saturating_add(1);
        let shown = ShownFinding {
            finding: &*finding,
            symbols: &*symbols,
        };
        let _ = match finding.line(symbols) {
            Some(line) => eprintln!(rt; "{line}: {number}. {shown}"),
            None => eprintln!(rt; "{number}. {shown}"),
        };
    }
}

/// With what to begin, and where to see more.
fn tell_next<R: Eprint>(rt: &R, task: &CertifyTask<'_>, ended: &NoCertificate<'_>) {
    let first = match ended.crash() {
        Some(crash) if crash.finding != CrashFinding::First => "the crash",
        _ => "finding 1",
    };
    let _ = match task.work {
        Work::Report(name) => eprintln!(rt;
            "{PROGRAM}: begin with {first}, then run certify again; {name} shows how the game gets there"
        ),
        _ => eprintln!(rt;
            "{PROGRAM}: begin with {first}, then run certify again; --report page.html shows how the game gets there"
        ),
    };
}

/// Prints the verdict that there is no certificate. Whoever sees standard error reads last what to do next.
fn print_verdict<R: Print + Eprint>(
    rt: &R,
    task: &CertifyTask<'_>,
    ended: &NoCertificate<'_>,
    is_shown: bool,
) -> Status {
    let count = ended.findings.len();
    if println!(rt; "NO CERTIFICATE obstacles {count}").is_err() {
        return tell_output(rt, PROGRAM);
    }
    if is_shown {
        tell_next(rt, task, ended);
    }
    Status::Refused
}

/// Says that there is no certificate, and why.
///
/// # Errors
///
/// Where the hunt failed: that is told after all else.
pub fn report<R: Print + Eprint + AllocGlobal>(
    rt: &R,
    task: &CertifyTask<'_>,
    ended: &NoCertificate<'_>,
    symbols: &Symbols<'_>,
    is_shown: bool,
) -> Result<Status, Trouble> {
    if task.is_json {
        let status = print_json(rt, task, ended, symbols)?;
        ended.tell_nothing(rt, task);
        return match ended.trouble {
            Some(trouble) if status == Status::Refused => Err(trouble),
            _ => Ok(status),
        };
    }
    if let Some(crash) = ended.crash() {
        crash.tell(rt, task, symbols);
    }
    tell_findings(rt, &ended.findings, symbols);
    ended.tell_nothing(rt, task);
    match ended.trouble {
        Some(trouble) => Err(trouble),
        None => Ok(print_verdict(rt, task, ended, is_shown)),
    }
}

/// A certificate that the checker refuses is no one's fault but the maker's.
pub fn refused_findings<R: AllocGlobal>(rt: &R) -> Result<Vec<Finding>, Trouble> {
    let mut findings = Vec::new(rt.alloc());
    findings.push(Finding::Internal)?;
    Ok(findings)
}

/// Hunts for a crash, and says that there is no certificate.
fn hunt_and_report<R: Print + Eprint + Files + Clock + AllocGlobal>(
    rt: &R,
    task: &CertifyTask<'_>,
    rom: &Rom<'_>,
    findings: Vec<Finding>,
    symbols: &Symbols<'_>,
    is_shown: bool,
) -> Result<Status, Trouble> {
    let ended = NoCertificate::of(rt, task, rom, findings, symbols, is_shown);
    report(rt, task, &ended, symbols, is_shown)
}

/// Makes a certificate, writes it where the checker accepts it, and prints the verdict's line, and what changed since an older
/// one.
pub fn make_file<R: Print + Eprint + Files + Clock + AllocGlobal>(
    rt: &R,
    task: &CertifyTask<'_>,
    bytes: &[u8],
    symbols: &Symbols<'_>,
    older: Option<&Older<'_, '_, '_, '_>>,
    is_shown: bool,
) -> Result<Status, Trouble> {
    let Ok(rom) = Rom::parse(bytes) else {
        // The line says what is wrong with the cartridge.
        return Ok(verify(rt, PROGRAM, task.names(), bytes, b""));
    };
    match made(rt, task, &rom, is_shown)? {
        Made::Findings(findings) => hunt_and_report(rt, task, &rom, findings, symbols, is_shown),
        Made::Certificate(cert) if is_accepted(rt, bytes, &cert) => {
            let cert = in_newest_version(rt, task, bytes, cert);
            write_file(rt, task.cert, &cert)?;
            tell_made(rt, task, bytes, &cert, symbols, older)
        }
        Made::Certificate(_) => {
            let findings = refused_findings(rt)?;
            hunt_and_report(rt, task, &rom, findings, symbols, is_shown)
        }
    }
}
