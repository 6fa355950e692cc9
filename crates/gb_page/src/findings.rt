//! The page on a cartridge for which no certificate could be made: its findings.

use crate::crash::{Crash, fmt_crash};
use crate::escaped::Escaped;
use crate::page::{fmt_end, fmt_head};
use crate::path::PathToFinding;
use crate::verdict::fmt_color;
use gb_reports::{Finding, FindingPart, Rom, ShownPart, Symbols};
use std::alloc::{AllocError, Global};
use std::fmt;

/// What is said of a finding, in parts.
#[derive(Drop)]
struct FindingTexts {
    /// The author's line; nothing where it isn't known.
    line: String,
    /// Nothing where it is at no instruction, as the next two.
    place: String,
    reached: String,
    state: String,
    problem: String,
    why: String,
    remedy: String,
    more: String,
}

/// What is shown besides the findings, where it is so or is at hand.
#[derive(Clone, Copy)]
pub struct FindingsExtras<'a> {
    /// The older build has a certificate, so that the findings are new.
    pub are_new: bool,
    /// A crash; where a finding is at its place, that is the first one.
    pub crash: Option<&'a Crash<'a>>,
}

impl FindingsExtras<'_> {
    /// None of them.
    pub fn none() -> FindingsExtras<'static> {
        FindingsExtras {
            are_new: false,
            crash: None,
        }
    }
}

/// The findings, with what is said of each.
#[derive(Clone, Copy)]
struct FindingsPage<'a, 'r, 's> {
    rom: &'a Rom<'r>,
    symbols: &'a Symbols<'s>,
    findings: &'a [Finding],
    texts: &'a [FindingTexts],
    extras: FindingsExtras<'a>,
}

/// Where the crash and each finding are on the page.
fn fmt_contents<W: fmt::Write>(
    has_crash: bool,
    count: usize,
    f: &mut fmt::Formatter<W>,
) -> fmt::Result {
    write!(f, "<nav>")?;
    if has_crash {
        write!(f, "<a href=\"#crash\">Crash</a> ")?;
    }
    for place in 0..count {
        let number = place.saturating_add(1);
        write!(f, "<a href=\"#o{number}\">Finding {number}</a> ")?;
    }
    write!(f, "</nav>\n")
}

/// The path to a finding, if it is at an instruction.
fn fmt_path<W: fmt::Write>(
    page: &FindingsPage<'_, '_, '_>,
    place: usize,
    f: &mut fmt::Formatter<W>,
) -> fmt::Result {
    if let Some(Finding::Instruction(finding)) = page.findings.get(place) {
        let path = PathToFinding {
            rom: page.rom,
            symbols: page.symbols,
            finding,
            number: place.saturating_add(1),
        };
        write!(f, "{path}")?;
    }
    Ok(())
}

/// What is said of all of them.
fn fmt_meaning<W: fmt::Write>(are_new: bool, f: &mut fmt::Formatter<W>) -> fmt::Result {
    write!(
        f,
        "<p>certify could not make a certificate, so nothing is proved about the game. The analysis is conservative: it may reject a safe game. Fix the first finding first, since later ones often follow from it.</p>\n"
    )?;
    if are_new {
        write!(
            f,
            "<p>The older build has a certificate, so all of this is new.</p>\n"
        )?;
    }
    Ok(())
}

/// A text in a paragraph of code, where there is one.
fn fmt_code<W: fmt::Write>(text: &str, f: &mut fmt::Formatter<W>) -> fmt::Result {
    if text.is_empty() {
        return Ok(());
    }
    let text = Escaped(text);
    write!(f, "<p><code>{text}</code></p>\n")
}

/// What can go wrong, and why that matters.
fn fmt_problem<W: fmt::Write>(texts: &FindingTexts, f: &mut fmt::Formatter<W>) -> fmt::Result {
    let problem = Escaped(texts.problem.as_str());
    let why = Escaped(texts.why.as_str());
    write!(f, "<pre>{problem}</pre>\n<p>{why}</p>\n")
}

/// How to fix it.
fn fmt_remedy<W: fmt::Write>(texts: &FindingTexts, f: &mut fmt::Formatter<W>) -> fmt::Result {
    let remedy = Escaped(texts.remedy.as_str());
    let more = Escaped(texts.more.as_str());
    write!(
        f,
        "<h3>How to fix it</h3>\n<p>{remedy}</p>\n<p class=\"quiet\">{more}</p>\n"
    )
}

/// What is known at its instruction, where it is at one.
fn fmt_known<W: fmt::Write>(texts: &FindingTexts, f: &mut fmt::Formatter<W>) -> fmt::Result {
    if texts.state.is_empty() {
        return Ok(());
    }
    let state = Escaped(texts.state.as_str());
    write!(
        f,
        "<h3>What is known there</h3>\n<pre class=\"known\">{state}</pre>\n"
    )
}

/// How the code gets there, where it is at an instruction.
fn fmt_reached<W: fmt::Write>(texts: &FindingTexts, f: &mut fmt::Formatter<W>) -> fmt::Result {
    if texts.reached.is_empty() {
        return Ok(());
    }
    let reached = Escaped(texts.reached.as_str());
    write!(
        f,
        "<h3>How the code gets there</h3>\n<p><code>{reached}</code></p>\n"
    )
}

/// A finding.
fn fmt_finding<W: fmt::Write>(
    page: &FindingsPage<'_, '_, '_>,
    place: usize,
    texts: &FindingTexts,
    f: &mut fmt::Formatter<W>,
) -> fmt::Result {
    let number = place.saturating_add(1);
    write!(f, "<section id=\"o{number}\"><h2>Finding {number}</h2>\n")?;
    fmt_code(texts.line.as_str(), f)?;
    fmt_code(texts.place.as_str(), f)?;
    fmt_problem(texts, f)?;
    fmt_remedy(texts, f)?;
    fmt_known(texts, f)?;
    fmt_reached(texts, f)?;
    fmt_path(page, place, f)?;
    write!(f, "</section>\n")
}

impl fmt::Display for FindingsPage<'_, '_, '_> {
    fn fmt<W: fmt::Write>(&self, f: &mut fmt::Formatter<W>) -> fmt::Result {
        let count = self.texts.len();
        fmt_head("No certificate for", self.rom, f)?;
        write!(
            f,
            "<p class=\"verdict refused\">NO CERTIFICATE obstacles {count}</p>\n"
        )?;
        fmt_meaning(self.extras.are_new, f)?;
        fmt_color(self.rom, f)?;
        fmt_contents(self.extras.crash.is_some(), count, f)?;
        if let Some(crash) = self.extras.crash {
            fmt_crash(crash, f)?;
        }
        for (place, texts) in self.texts.iter().enumerate() {
            fmt_finding(self, place, texts, f)?;
        }
        fmt_end(f)
    }
}

/// The page with these texts.
fn shown<'x>(
    alloc: Global,
    rom: &'x Rom<'_>,
    findings: &'x [Finding],
    symbols: &'x Symbols<'_>,
    texts: &'x [FindingTexts],
    extras: FindingsExtras<'x>,
) -> Result<String, AllocError> {
    let page = FindingsPage {
        rom,
        symbols,
        findings,
        texts,
        extras,
    };
    format!(in alloc; "{page}")
}

/// A part of what is said of a finding.
fn text_of(
    alloc: Global,
    finding: &Finding,
    symbols: &Symbols<'_>,
    part: FindingPart,
) -> Result<String, AllocError> {
    let text = ShownPart {
        finding: &*finding,
        symbols: &*symbols,
        part,
    };
    format!(in alloc; "{text}")
}

/// The author's line of a finding.
fn line_of(alloc: Global, finding: &Finding, symbols: &Symbols<'_>) -> Result<String, AllocError> {
    match finding.line(symbols) {
        Some(line) => format!(in alloc; "{line}"),
        None => Ok(String::new(alloc)),
    }
}

/// What is said of a finding.
fn texts_of(
    alloc: Global,
    finding: &Finding,
    symbols: &Symbols<'_>,
) -> Result<FindingTexts, AllocError> {
    Ok(FindingTexts {
        line: line_of(alloc, finding, symbols)?,
        place: text_of(alloc, finding, symbols, FindingPart::Place)?,
        reached: text_of(alloc, finding, symbols, FindingPart::Reached)?,
        state: text_of(alloc, finding, symbols, FindingPart::State)?,
        problem: text_of(alloc, finding, symbols, FindingPart::Problem)?,
        why: text_of(alloc, finding, symbols, FindingPart::Why)?,
        remedy: text_of(alloc, finding, symbols, FindingPart::Remedy)?,
        more: text_of(alloc, finding, symbols, FindingPart::More)?,
    })
}

/// The page on why there is no certificate, with labels from symbols, and with what else is at hand.
///
/// # Errors
///
/// Where memory ran out.
pub fn findings_page(
    alloc: Global,
    rom: &Rom<'_>,
    findings: &[Finding],
    symbols: &Symbols<'_>,
    extras: FindingsExtras<'_>,
) -> Result<String, AllocError> {
    let mut texts = Vec::new(alloc);
    for finding in findings {
        texts.push(texts_of(alloc, finding, symbols)?)?;
    }
    shown(alloc, rom, findings, symbols, texts.as_slice(), extras)
}
