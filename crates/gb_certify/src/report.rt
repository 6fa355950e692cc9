//! A page on a certificate: on one that is there, or on one that is made first.

use crate::compare::{changes_of, tell_verdict};
use crate::crash::FoundCrash;
use crate::files::{is_missing, write_file, write_whole};
use crate::hunting::NoCertificate;
use crate::making::{in_newest_version, is_accepted, made, refused_findings, report};
use crate::messages::PROGRAM;
use crate::playing::{is_right, played};
use crate::words::CertifyTask;
use gb_command_line::messages::verify;
use gb_command_line::status::Status;
use gb_command_line::{Cert, Rom, Trouble, read_certificate};
use gb_page::{
    Changes, Extras, Finding, FindingsExtras, Older, Symbols, crash_json, facts_json, finding_json,
    findings_page, page_of,
};
use gb_refine::Made;
use std::alloc::{AllocError, Global};
use std::fmt;
use std::io::Input;
use std::rt::{Clock, Files};

/// A page with the screen, where the certificate is accepted: only then is every frame known to be whole.
fn page_with_screen(
    alloc: Global,
    rom: &Rom<'_>,
    cert: &Cert<'_>,
    symbols: &Symbols<'_>,
    changes: Option<&Changes>,
) -> Result<String, AllocError> {
    if !is_right(rom, cert) {
        let extras = Extras {
            changes,
            ..Extras::none()
        };
        return page_of(alloc, rom, cert, symbols, extras);
    }
    let console = played(alloc, rom)?;
    let extras = Extras {
        changes,
        screen: Some(console.screen()),
        ..Extras::none()
    };
    page_of(alloc, rom, cert, symbols, extras)
}

/// What is written on a certificate: a page, or its facts as JSON.
fn text_on(
    alloc: Global,
    task: &CertifyTask<'_>,
    rom: &Rom<'_>,
    cert: &Cert<'_>,
    symbols: &Symbols<'_>,
    changes: Option<&Changes>,
) -> Result<String, AllocError> {
    if !task.is_json {
        return page_with_screen(alloc, rom, cert, symbols, changes);
    }
    let extras = Extras {
        changes,
        ..Extras::none()
    };
    facts_json(alloc, rom, cert, symbols, extras)
}

/// Texts on lines of their own.
#[derive(Clone, Copy)]
struct JsonLines<'a>(&'a [String]);

impl fmt::Display for JsonLines<'_> {
    fn fmt<W: fmt::Write>(&self, f: &mut fmt::Formatter<W>) -> fmt::Result {
        for line in self.0 {
            let line = line.as_str();
            write!(f, "{line}\n")?;
        }
        Ok(())
    }
}

/// A crash and the findings as JSON, an object a line.
fn obstacle_lines(
    alloc: Global,
    task: &CertifyTask<'_>,
    ended: &NoCertificate<'_>,
    symbols: &Symbols<'_>,
) -> Result<String, AllocError> {
    let mut lines = Vec::new(alloc);
    if let Some(crash) = ended.crash() {
        let replay = crash.replay(alloc, task)?;
        lines.push(crash_json(alloc, &crash.facts(replay.as_str()), symbols)?)?;
    }
    for finding in &ended.findings {
        lines.push(finding_json(alloc, finding, symbols)?)?;
    }
    let lines = JsonLines(lines.as_slice());
    format!(in alloc; "{lines}")
}

/// A page of findings that begins with a crash.
fn page_of_a_crash(
    alloc: Global,
    task: &CertifyTask<'_>,
    rom: &Rom<'_>,
    findings: &[Finding],
    crash: &FoundCrash<'_>,
    symbols: &Symbols<'_>,
) -> Result<String, AllocError> {
    let replay = crash.replay(alloc, task)?;
    let facts = crash.facts(replay.as_str());
    let extras = FindingsExtras {
        are_new: task.before.is_some(),
        crash: Some(&facts),
    };
    findings_page(alloc, rom, findings, symbols, extras)
}

/// A page of findings, with the crash, if one was found.
fn page_of_findings(
    alloc: Global,
    task: &CertifyTask<'_>,
    rom: &Rom<'_>,
    ended: &NoCertificate<'_>,
    symbols: &Symbols<'_>,
) -> Result<String, AllocError> {
    if let Some(crash) = ended.crash() {
        return page_of_a_crash(alloc, task, rom, &ended.findings, crash, symbols);
    }
    let extras = FindingsExtras {
        are_new: task.before.is_some(),
        crash: None,
    };
    findings_page(alloc, rom, &ended.findings, symbols, extras)
}

/// What is written where there is no certificate: a page, or the findings as JSON.
fn text_on_obstacles(
    alloc: Global,
    task: &CertifyTask<'_>,
    rom: &Rom<'_>,
    ended: &NoCertificate<'_>,
    symbols: &Symbols<'_>,
) -> Result<String, AllocError> {
    if task.is_json {
        obstacle_lines(alloc, task, ended, symbols)
    } else {
        page_of_findings(alloc, task, rom, ended, symbols)
    }
}

/// Writes a page on a certificate, right or wrong, and prints the verdict's line.
fn write_page<R: Print + Eprint + Files + AllocGlobal>(
    rt: &R,
    task: &CertifyTask<'_>,
    name: &str,
    bytes: &[u8],
    cert_bytes: &[u8],
    symbols: &Symbols<'_>,
    older: Option<&Older<'_, '_, '_, '_>>,
) -> Result<Status, Trouble> {
    let (Ok(rom), Ok(cert)) = (Rom::parse(bytes), Cert::parse(rt.alloc(), cert_bytes)) else {
        // The line says which file isn't valid, and why.
        return Ok(verify(rt, PROGRAM, task.names(), bytes, cert_bytes));
    };
    let changes = changes_of(rt.alloc(), &rom, &cert, symbols, older)?;
    let page = text_on(rt.alloc(), task, &rom, &cert, symbols, changes.as_ref())?;
    write_whole(rt, name, page.as_bytes())?;
    tell_verdict(rt, task, bytes, cert_bytes, changes.as_ref())
}

/// Hunts for a crash, writes a page on why there is no certificate, and says that there is none.
fn write_obstacles<R: Print + Eprint + Files + Clock + AllocGlobal>(
    rt: &R,
    task: &CertifyTask<'_>,
    name: &str,
    rom: &Rom<'_>,
    findings: Vec<Finding>,
    symbols: &Symbols<'_>,
    is_shown: bool,
) -> Result<Status, Trouble> {
    let ended = NoCertificate::of(rt, task, rom, findings, symbols, is_shown);
    let page = text_on_obstacles(rt.alloc(), task, rom, &ended, symbols)?;
    write_whole(rt, name, page.as_bytes())?;
    report(rt, task, &ended, symbols, is_shown)
}

/// Makes the certificate first, and writes it where the checker accepts it.
fn report_made<R: Print + Eprint + Files + Clock + AllocGlobal>(
    rt: &R,
    task: &CertifyTask<'_>,
    name: &str,
    bytes: &[u8],
    symbols: &Symbols<'_>,
    older: Option<&Older<'_, '_, '_, '_>>,
    is_shown: bool,
) -> Result<Status, Trouble> {
    let Ok(rom) = Rom::parse(bytes) else {
        // The line says what is wrong with the cartridge.
        return Ok(verify(rt, PROGRAM, task.names(), bytes, b""));
    };
    match made(rt, task, &rom, is_shown)? {
        Made::Findings(findings) => {
            write_obstacles(rt, task, name, &rom, findings, symbols, is_shown)
        }
        Made::Certificate(cert) if is_accepted(rt, bytes, &cert) => {
            let cert = in_newest_version(rt, task, bytes, cert);
            write_file(rt, task.cert, &cert)?;
            write_page(rt, task, name, bytes, &cert, symbols, older)
        }
        Made::Certificate(_) => {
            let findings = refused_findings(rt)?;
            write_obstacles(rt, task, name, &rom, findings, symbols, is_shown)
        }
    }
}

/// Writes a page on a certificate; where its file isn't there, one is made first.
pub fn report_file<R: Print + Eprint + Input + Files + Clock + AllocGlobal>(
    rt: &R,
    task: &CertifyTask<'_>,
    name: &str,
    bytes: &[u8],
    symbols: &Symbols<'_>,
    older: Option<&Older<'_, '_, '_, '_>>,
    is_shown: bool,
) -> Result<Status, Trouble> {
    if is_missing(rt, task.cert) {
        return report_made(rt, task, name, bytes, symbols, older, is_shown);
    }
    let cert_bytes = read_certificate(rt, PROGRAM, task.cert)?;
    write_page(rt, task, name, bytes, &cert_bytes, symbols, older)
}
