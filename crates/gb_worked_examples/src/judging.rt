//! The checker's verdicts.

use gb_console::{UpgradeTo, Upgraded, upgrade_bytes, verify_bytes};
use gb_refine::Edition;
use gb_text::kept_bytes::KeptBytes;
use gb_text::line::Line;
use gb_text::sink::Plain;
use std::alloc::Global;
use std::io::{self, Write};

/// The verdict's line.
fn verdict_line(alloc: Global, rom: &[u8], cert: &[u8]) -> Line {
    let mut line = KeptBytes::new(96, 96);
    let _ = verify_bytes(alloc, rom, cert, &mut line);
    line.into_line()
}

/// How many certificates of versions 1 and 2 were accepted, and how many of them are accepted in version 3 too.
#[derive(Clone, Copy)]
pub struct Upgrades {
    pub accepted: u32,
    pub still: u32,
}

/// A certificate of version 1 or 2 in version 3; of another version, or of bytes that are none, nothing.
fn in_version_3(alloc: Global, cert: &[u8]) -> Option<Vec<u8>> {
    if !cert.starts_with(b"GBBC") {
        return None;
    }
    let mut bytes = Vec::new(alloc);
    match upgrade_bytes(alloc, cert, UpgradeTo::Three, &mut Plain::new(&mut bytes)) {
        Ok(Upgraded::Written) => Some(bytes),
        _ => None,
    }
}

/// Prints the verdict on a certificate of version 1 or 2 in version 3, where that is another one than this.
fn judge_upgraded<W: Write>(
    alloc: Global,
    out: &mut W,
    rom: &[u8],
    cert: &[u8],
    line: &[u8],
    upgrades: &mut Upgrades,
) -> io::Result<()> {
    let Some(upgraded) = in_version_3(alloc, cert) else {
        return Ok(());
    };
    let again = verdict_line(alloc, rom, upgraded.as_slice());
    let is_same = again.as_slice() == line;
    if line.starts_with(b"ACCEPTED") {
        upgrades.accepted = upgrades.accepted.saturating_add(1);
        if is_same {
            upgrades.still = upgrades.still.saturating_add(1);
        }
    }
    if is_same {
        return Ok(());
    }
    out.write_all(b"In version 3: ")?;
    out.write_all(again.as_slice())
}

/// Prints the verdict's line, and that in version 3 where it is another one.
pub fn judge<W: Write>(
    alloc: Global,
    out: &mut W,
    rom: &[u8],
    cert: &[u8],
    upgrades: &mut Upgrades,
) -> io::Result<()> {
    let line = verdict_line(alloc, rom, cert);
    out.write_all(line.as_slice())?;
    judge_upgraded(alloc, out, rom, cert, line.as_slice(), upgrades)
}

/// Prints how many certificates of versions 1 and 2 were accepted, and how many of them are in version 3 too.
pub fn tell_upgrades<W: Write>(out: &mut W, upgrades: &Upgrades) -> io::Result<()> {
    let Upgrades { accepted, still } = *upgrades;
    writeln!(
        out,
        "{accepted} certificates of versions 1 and 2 are accepted, and in version 3 {still} of them"
    )
}

/// The most nodes and procedures that a certificate may have which is made, and the most rounds that its maker may take; and the
/// rules by which alone it is made, where they are named.
#[derive(Clone, Copy)]
pub struct Ceiling {
    pub nodes: usize,
    pub procedures: usize,
    pub rounds: usize,
    pub edition: Option<Edition>,
}

/// The number that follows a word of a line.
fn number_behind(line: &str, word: &str) -> Option<usize> {
    let mut is_behind = false;
    for found in line.trim().split(' ') {
        if is_behind {
            return found.parse::<usize>().ok();
        }
        is_behind = found == word;
    }
    None
}

/// Whether a verdict's line has no more nodes and procedures than a ceiling, and its certificate's maker took no more rounds.
fn is_kept(line: &str, rounds: usize, ceiling: Ceiling) -> bool {
    match (
        number_behind(line, "nodes"),
        number_behind(line, "procedures"),
    ) {
        (Some(nodes), Some(procedures)) => {
            nodes <= ceiling.nodes && procedures <= ceiling.procedures && rounds <= ceiling.rounds
        }
        _ => false,
    }
}

/// Prints the first word of the verdict on a certificate that was made, and whether it keeps its ceiling: how many nodes it
/// has else is the maker's choice.
pub fn judge_made<W: Write>(
    alloc: Global,
    out: &mut W,
    rom: &[u8],
    cert: &[u8],
    rounds: usize,
    ceiling: Option<Ceiling>,
    upgrades: &mut Upgrades,
) -> io::Result<()> {
    let line = verdict_line(alloc, rom, cert);
    let text = str::from_utf8(line.as_slice()).unwrap_or("");
    out.write_all(text.split(' ').next().unwrap_or("").as_bytes())?;
    if let Some(ceiling) = ceiling {
        let says = if is_kept(text, rounds, ceiling) {
            ", no more nodes, procedures and rounds than are told"
        } else {
            ", more nodes, procedures or rounds than are told"
        };
        out.write_all(says.as_bytes())?;
    }
    writeln!(out)?;
    judge_upgraded(alloc, out, rom, cert, line.as_slice(), upgrades)
}
