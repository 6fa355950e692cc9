//! The verdict, what it means, and what it depends on.

use crate::escaped::Escaped;
use crate::names::NodeLink;
use crate::page::Page;
use gb_reports::gb_ops::machine::Kind;
use gb_reports::{Cert, Explanation, NamedText, Rom, Symbols, Verdict, color_note};
use std::alloc::{AllocError, Global};
use std::fmt;

/// What an accepted certificate means.
const MEANING: &str =
    "This holds in every run from power-up, whatever keys are pressed and whenever enabled interrupts fire. The CPU never executes an undefined opcode, and fetches code from certified banks only. Pushes, calls and interrupts write only to the stack’s area. Cartridge RAM is used only while it is enabled. During OAM DMA, only HRAM is used.";

/// What the verdict depends on, and what it doesn't say.
const PREMISES: &str = "\
<li>The machine is the one that this project defines from Pan Docs: the first Game Boy (DMG). Interrupts come between instructions, and an instruction’s accesses happen at its start. That real hardware does the same isn’t proved.</li>
<li>The cartridge has exactly the bytes of this ROM.</li>
<li>The toolchain that proved the checker, the C library and the operating system are trusted. A run with <code>--unproved</code> proves nothing.</li>
<li>Nothing is said about what the game shows, about its timing, or whether an interrupt ever fires.</li>
<li>Only the verdict is proved. The rest of this page is informational.</li>
";

/// A text with symbols after the addresses of RAM.
pub fn named(alloc: Global, symbols: &Symbols<'_>, text: &str) -> Result<String, AllocError> {
    let named = NamedText {
        symbols: &*symbols,
        text: &*text,
    };
    format!(in alloc; "{named}")
}

/// What there is to say of a refusal, if it is one, with symbols after the addresses of RAM.
pub fn refusal_of(
    alloc: Global,
    rom: &Rom<'_>,
    cert: &Cert<'_>,
    symbols: &Symbols<'_>,
    verdict: Verdict,
) -> Result<String, AllocError> {
    match verdict {
        Verdict::Refused { node, reason } if node < cert.nodes() => {
            let explanation = Explanation::of(rom, cert, node, reason);
            let text = format!(in alloc; "{explanation}")?;
            named(alloc, symbols, text.as_str())
        }
        _ => Ok(String::new(alloc)),
    }
}

/// The verdict's line.
fn fmt_line<W: fmt::Write>(verdict: Verdict, f: &mut fmt::Formatter<W>) -> fmt::Result {
    match verdict {
        Verdict::Accepted { nodes, procedures } => write!(
            f,
            "<p class=\"verdict accepted\">ACCEPTED nodes {nodes} procedures {procedures}</p>\n"
        ),
        Verdict::Refused { node, reason } => {
            let reason = reason.number();
            write!(
                f,
                "<p class=\"verdict refused\">REFUSED node {node} reason {reason}</p>\n"
            )
        }
    }
}

/// What an accepted verdict means, and its premises.
fn fmt_meaning<W: fmt::Write>(f: &mut fmt::Formatter<W>) -> fmt::Result {
    write!(
        f,
        "<p>{MEANING}</p>\n<details><summary>What this depends on</summary>\n<ul>\n{PREMISES}</ul>\n</details>\n"
    )
}

/// What a refusal means, with the explanation and the way to its node.
fn fmt_refusal<W: fmt::Write>(
    page: &Page<'_, '_, '_, '_>,
    node: u32,
    f: &mut fmt::Formatter<W>,
) -> fmt::Result {
    let link = NodeLink { page, node };
    let text = Escaped(page.refusal);
    write!(
        f,
        "<p>The checker refuses this certificate at node {node}, {link}. Nothing is proved about the game, and the rest of this page shows only what the certificate claims. The game may still be safe: a certificate fits one build only.</p>\n<pre>{text}</pre>\n"
    )
}

/// The name of the controller.
fn kind_text(kind: Kind) -> &'static str {
    match kind {
        Kind::Rom => "no MBC",
        Kind::Mbc1 => "MBC1",
        Kind::Mbc3 => "MBC3",
        Kind::Mbc5 => "MBC5",
    }
}

/// Which cartridge and which certificate the page is about.
fn fmt_files<W: fmt::Write>(page: &Page<'_, '_, '_, '_>, f: &mut fmt::Formatter<W>) -> fmt::Result {
    let kind = kind_text(page.rom.kind());
    let banks = page.rom.banks();
    let ram_banks = page.rom.ram_banks();
    let checksum = page.rom.checksum();
    let version = page.facts.version;
    write!(
        f,
        "<p class=\"quiet\">Cartridge: {kind}, ROM banks {banks}, RAM banks {ram_banks}, header checksum ${checksum:02X}. Certificate: version {version}.</p>\n"
    )
}

/// That a cartridge for the Color is analysed as on a DMG.
pub(crate) fn fmt_color<W: fmt::Write>(rom: &Rom<'_>, f: &mut fmt::Formatter<W>) -> fmt::Result {
    match color_note(rom) {
        Some(note) => write!(f, "<p>{note}</p>\n"),
        None => Ok(()),
    }
}

/// The verdict's part.
pub fn fmt_verdict<W: fmt::Write>(
    page: &Page<'_, '_, '_, '_>,
    f: &mut fmt::Formatter<W>,
) -> fmt::Result {
    fmt_line(page.facts.verdict, f)?;
    match page.facts.verdict {
        Verdict::Accepted { .. } => fmt_meaning(f)?,
        Verdict::Refused { node, .. } => fmt_refusal(page, node, f)?,
    }
    fmt_color(page.rom, f)?;
    fmt_files(page, f)
}
