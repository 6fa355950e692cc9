//! The whole page.

use crate::changes::Changes;
use crate::escaped::Escaped;
use crate::interrupts::fmt_interrupts;
use crate::procedures::fmt_procedures;
use crate::ram::fmt_ram;
use crate::rom::fmt_rom;
use crate::screen::{Screen, fmt_screen};
use crate::stack::fmt_stack;
use crate::style::STYLE;
use crate::verdict::{fmt_verdict, refusal_of};
use gb_reports::{Cert, Facts, Rom, Symbols, Verdict};
use std::alloc::{AllocError, Global};
use std::{fmt, str};

/// The most nodes that are listed, where nothing else is said.
const LISTED: u32 = 20_000;

/// What is shown besides a certificate's own facts, where it is at hand.
#[derive(Clone, Copy)]
pub struct Extras<'a> {
    /// What it changed since an older one.
    pub changes: Option<&'a Changes>,
    /// The console's screen after 120 frames.
    pub screen: Option<&'a Screen>,
    /// The most nodes that are listed.
    pub listed: u32,
}

impl Extras<'_> {
    /// None of them.
    pub fn none() -> Extras<'static> {
        Extras {
            changes: None,
            screen: None,
            listed: LISTED,
        }
    }
}

/// What the page is made from.
#[derive(Clone, Copy)]
pub struct Page<'a, 'r, 'c, 's> {
    pub rom: &'a Rom<'r>,
    pub cert: &'a Cert<'c>,
    pub symbols: &'a Symbols<'s>,
    pub facts: &'a Facts,
    /// What there is to say of a refusal; nothing where the certificate is accepted.
    pub refusal: &'a str,
    /// What it changed, a line each; nothing where it isn't compared.
    pub changed: &'a str,
    pub extras: Extras<'a>,
}

impl Page<'_, '_, '_, '_> {
    /// Whether the certificate is refused at a node.
    fn is_refused(&self, number: u32) -> bool {
        match self.facts.verdict {
            Verdict::Refused { node, .. } => node == number,
            Verdict::Accepted { .. } => false,
        }
    }

    /// Whether a node is in the listing: the first of them, and the refused one.
    pub(crate) fn is_listed(&self, node: u32) -> bool {
        node < self.facts.nodes && (node < self.extras.listed || self.is_refused(node))
    }
}

/// The title that the cartridge's header gives, as far as it is ASCII.
fn title_of<'r>(rom: &Rom<'r>) -> &'r str {
    let bytes = rom.bytes();
    let field = bytes.get(0x134..0x143).unwrap_or(&[]);
    let mut length = 0usize;
    for byte in field {
        if !(0x20..0x7F).contains(byte) {
            break;
        }
        length = length.wrapping_add(1);
    }
    let title = field.get(..length).unwrap_or(&[]);
    match str::from_utf8(title) {
        Ok(title) if !title.is_empty() => title,
        _ => "a cartridge without a title",
    }
}

/// What comes before all parts; the title begins with the kind of the page.
pub(crate) fn fmt_head<W: fmt::Write>(
    kind: &str,
    rom: &Rom<'_>,
    f: &mut fmt::Formatter<W>,
) -> fmt::Result {
    let title = Escaped(title_of(rom));
    write!(
        f,
        "<!DOCTYPE html>\n<html lang=\"en\">\n<head>\n<meta charset=\"utf-8\">\n<meta name=\"viewport\" content=\"width=device-width, initial-scale=1\">\n<title>{kind} {title}</title>\n<link rel=\"icon\" href=\"data:,\">\n"
    )?;
    write!(
        f,
        "<style>\n{STYLE}</style>\n</head>\n<body>\n<main>\n<h1>{kind} {title}</h1>\n"
    )
}

/// Where the parts are that not every page has.
fn fmt_extra_contents<W: fmt::Write>(extras: Extras<'_>, f: &mut fmt::Formatter<W>) -> fmt::Result {
    if extras.changes.is_some() {
        write!(f, "<a href=\"#changes\">Changes</a> ")?;
    }
    if extras.screen.is_some() {
        write!(f, "<a href=\"#screen\">Screen</a> ")?;
    }
    Ok(())
}

/// Where each part is.
fn fmt_contents<W: fmt::Write>(extras: Extras<'_>, f: &mut fmt::Formatter<W>) -> fmt::Result {
    write!(f, "<nav>")?;
    fmt_extra_contents(extras, f)?;
    write!(
        f,
        "<a href=\"#stack\">Stack</a> <a href=\"#interrupts\">Interrupts</a> <a href=\"#rom\">ROM</a> <a href=\"#ram\">RAM</a> <a href=\"#procedures\">Routines</a></nav>\n"
    )
}

/// What a new certificate changed, a line each.
fn fmt_changes<W: fmt::Write>(changed: &str, f: &mut fmt::Formatter<W>) -> fmt::Result {
    write!(
        f,
        "<section id=\"changes\"><h2>Changes</h2>\n<p>What changed since the older certificate.</p>\n<ul>\n"
    )?;
    for line in changed.lines() {
        let line = Escaped(line);
        write!(f, "<li>{line}</li>\n")?;
    }
    write!(f, "</ul></section>\n")
}

/// The parts that not every page has.
fn fmt_extras<W: fmt::Write>(
    page: &Page<'_, '_, '_, '_>,
    f: &mut fmt::Formatter<W>,
) -> fmt::Result {
    if page.extras.changes.is_some() {
        fmt_changes(page.changed, f)?;
    }
    if let Some(screen) = page.extras.screen {
        fmt_screen(screen, f)?;
    }
    Ok(())
}

/// What comes after all parts.
pub(crate) fn fmt_end<W: fmt::Write>(f: &mut fmt::Formatter<W>) -> fmt::Result {
    write!(f, "</main>\n</body>\n</html>\n")
}

impl fmt::Display for Page<'_, '_, '_, '_> {
    fn fmt<W: fmt::Write>(&self, f: &mut fmt::Formatter<W>) -> fmt::Result {
        fmt_head("Certificate of", self.rom, f)?;
        fmt_verdict(self, f)?;
        fmt_contents(self.extras, f)?;
        fmt_extras(self, f)?;
        fmt_stack(self, f)?;
        fmt_interrupts(self, f)?;
        fmt_rom(self, f)?;
        fmt_ram(self, f)?;
        fmt_procedures(self, f)?;
        fmt_end(f)
    }
}

/// The texts on a certificate that are made before its page.
#[derive(Drop)]
struct PageTexts {
    refusal: String,
    changed: String,
}

/// What a new certificate changed, a line each.
fn changed_of(alloc: Global, extras: Extras<'_>) -> Result<String, AllocError> {
    match extras.changes {
        Some(changes) => format!(in alloc; "{changes}"),
        None => Ok(String::new(alloc)),
    }
}

/// The page with these facts and texts.
fn shown<'x>(
    alloc: Global,
    rom: &'x Rom<'_>,
    cert: &'x Cert<'_>,
    symbols: &'x Symbols<'_>,
    facts: &'x Facts,
    texts: &'x PageTexts,
    extras: Extras<'x>,
) -> Result<String, AllocError> {
    let page = Page {
        rom,
        cert,
        symbols,
        facts,
        refusal: texts.refusal.as_str(),
        changed: texts.changed.as_str(),
        extras,
    };
    format!(in alloc; "{page}")
}

/// The page of a certificate for a cartridge, right or wrong, with labels from symbols.
///
/// # Errors
///
/// Where memory ran out.
pub fn page_of(
    alloc: Global,
    rom: &Rom<'_>,
    cert: &Cert<'_>,
    symbols: &Symbols<'_>,
    extras: Extras<'_>,
) -> Result<String, AllocError> {
    let facts = Facts::of(alloc, rom, cert)?;
    let texts = PageTexts {
        refusal: refusal_of(alloc, rom, cert, symbols, facts.verdict)?,
        changed: changed_of(alloc, extras)?,
    };
    shown(alloc, rom, cert, symbols, &facts, &texts, extras)
}
