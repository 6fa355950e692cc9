//! Certificates are made of cartridges, or their first finding is printed.

use crate::judging::{Ceiling, Upgrades, judge_made};
use crate::reporting::{report_findings, tell_report};
use gb_page::{Finding, ShownFinding, Symbols, finding_json};
use gb_refine::{Made, SearchLimits, SearchProgress, make};
use gb_text::Rom;
use std::alloc::Global;
use std::io::{self, Write};

/// What the maker may use.
const LIMITS: SearchLimits = SearchLimits {
    nodes: 20_000,
    rounds: 400,
    region: None,
    edition: None,
};

/// How many rounds the maker has begun.
#[derive(Drop)]
struct Rounds {
    begun: usize,
}

impl SearchProgress for Rounds {
    fn round(&mut self, _number: u32) {
        self.begun = self.begun.saturating_add(1);
    }

    fn ran(&mut self, _nodes: usize, _procedures: usize) {}

    fn shrinks(&mut self) {}

    fn goes_on(&mut self) -> bool {
        true
    }

    fn done(&mut self) {}
}

/// Whether a line of a finding at an instruction is printed: its place and what can go wrong, how the code gets there, and its
/// rule and section.
fn is_printed(number: usize, line: &str) -> bool {
    number < 2 || line.starts_with("  Reached by: ") || line.starts_with("  Rule ")
}

/// Prints some lines of a finding at an instruction.
fn tell_instruction<W: Write>(
    alloc: Global,
    out: &mut W,
    shown: &ShownFinding<'_>,
) -> io::Result<()> {
    let text = format!(in alloc; "{shown}")?;
    for (number, line) in text.as_str().lines().enumerate() {
        if is_printed(number, line) {
            writeln!(out, "{line}")?;
        }
    }
    Ok(())
}

/// Prints the author's line of a finding, where it is known.
fn tell_line<W: Write>(out: &mut W, finding: &Finding, symbols: &Symbols<'_>) -> io::Result<()> {
    match finding.line(symbols) {
        Some(line) => write!(out, "{line}: "),
        None => Ok(()),
    }
}

/// Prints the first finding.
fn tell<W: Write>(
    alloc: Global,
    out: &mut W,
    findings: &[Finding],
    symbols: &Symbols<'_>,
) -> io::Result<()> {
    let Some(finding) = findings.first() else {
        return writeln!(out, "nothing is told");
    };
    tell_line(out, finding, symbols)?;
    let shown = ShownFinding { finding, symbols };
    match finding {
        Finding::Instruction(_) => tell_instruction(alloc, out, &shown),
        _ => writeln!(out, "{shown}"),
    }
}

/// Prints the first finding as JSON.
fn tell_json<W: Write>(
    alloc: Global,
    out: &mut W,
    findings: &[Finding],
    symbols: &Symbols<'_>,
) -> io::Result<()> {
    for finding in findings.iter().take(1) {
        let text = finding_json(alloc, finding, symbols)?;
        writeln!(out, "{text}")?;
    }
    Ok(())
}

/// How a certificate or a finding is printed.
#[derive(Clone, Copy, PartialEq, Eq)]
pub enum Telling {
    Words,
    Json,
    /// In words, with what the reports on it say.
    Report,
}

/// Makes a certificate and prints its verdict, or else the first finding.
pub fn certify<W: Write>(
    alloc: Global,
    out: &mut W,
    cartridge: &[u8],
    (symbols, lines): (&[u8], &[u8]),
    telling: Telling,
    ceiling: Option<Ceiling>,
    upgrades: &mut Upgrades,
) -> io::Result<()> {
    let Ok(rom) = Rom::parse(cartridge) else {
        return writeln!(out, "no cartridge");
    };
    let Ok(mut symbols) = Symbols::parse(alloc, symbols) else {
        return writeln!(out, "no symbols");
    };
    if !lines.is_empty() && symbols.add_lines(alloc, lines).is_err() {
        return writeln!(out, "no lines");
    }
    let mut rounds = Rounds { begun: 0 };
    let limits = SearchLimits {
        edition: ceiling.and_then(|ceiling| ceiling.edition),
        ..LIMITS
    };
    match (make(alloc, &rom, limits, &mut rounds)?, telling) {
        (Made::Certificate(cert), telling) => {
            let cert = cert.as_slice();
            let begun = rounds.begun;
            judge_made(alloc, out, cartridge, cert, begun, ceiling, upgrades)?;
            if telling == Telling::Report {
                tell_report(alloc, out, &rom, cert, &symbols)?;
            }
            Ok(())
        }
        (Made::Findings(findings), Telling::Report) => {
            tell(alloc, out, findings.as_slice(), &symbols)?;
            report_findings(alloc, out, &rom, findings.as_slice(), &symbols)
        }
        (Made::Findings(findings), Telling::Words) => {
            tell(alloc, out, findings.as_slice(), &symbols)
        }
        (Made::Findings(findings), Telling::Json) => {
            tell_json(alloc, out, findings.as_slice(), &symbols)
        }
    }
}
