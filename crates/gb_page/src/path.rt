//! The path to a finding: where it begins, and the instructions on it.

use crate::names::{Address, SymbolAt};
use gb_reports::{
    CodePoint, InstructionFinding, Program, Rom, Segment, Start, Symbols, code_at, interrupt_at,
    length_at,
};
use std::fmt;

/// The most instructions that are shown of addresses one after another.
const ROWS: u32 = 100;

/// The path to a finding, which has a number on its page.
#[derive(Clone, Copy)]
pub(crate) struct PathToFinding<'a, 'r, 's> {
    pub rom: &'a Rom<'r>,
    pub symbols: &'a Symbols<'s>,
    pub finding: &'a InstructionFinding,
    pub number: usize,
}

impl<'a, 's> PathToFinding<'a, '_, 's> {
    /// The symbol of an address in a bank; RAM has none.
    fn symbol(&self, bank: Option<u16>, address: u16) -> SymbolAt<'a, 's> {
        SymbolAt {
            symbols: self.symbols,
            at: Address {
                bank: bank.unwrap_or(0),
                address,
            },
        }
    }
}

/// An address of the path: with its bank where that is known, as RAM's isn't.
#[derive(Clone, Copy)]
struct PathAddress {
    bank: Option<u16>,
    address: u16,
}

impl fmt::Display for PathAddress {
    fn fmt<W: fmt::Write>(&self, f: &mut fmt::Formatter<W>) -> fmt::Result {
        let address = self.address;
        match self.bank {
            Some(bank) => {
                let at = Address { bank, address };
                write!(f, "{at}")
            }
            None => write!(f, "${address:04X}"),
        }
    }
}

/// An address with its symbol.
fn fmt_named<W: fmt::Write>(
    path: &PathToFinding<'_, '_, '_>,
    point: CodePoint,
    f: &mut fmt::Formatter<W>,
) -> fmt::Result {
    let CodePoint { bank, address } = point;
    let symbol = path.symbol(bank, address);
    let at = PathAddress { bank, address };
    write!(
        f,
        "<code>{at}</code> <span class=\"symbol\">{symbol}</span>"
    )
}

/// Where the path begins.
fn fmt_start<W: fmt::Write>(
    path: &PathToFinding<'_, '_, '_>,
    f: &mut fmt::Formatter<W>,
) -> fmt::Result {
    match path.finding.path.start {
        Start::PowerUp => write!(f, "<li>power-up</li>\n"),
        Start::Call { from, target } => {
            write!(f, "<li>the call of ")?;
            fmt_named(path, target, f)?;
            write!(f, " at ")?;
            fmt_named(path, from, f)?;
            write!(f, "</li>\n")
        }
        Start::Interrupt { from, target } => {
            let name = interrupt_at(target.address).unwrap_or("an interrupt");
            write!(f, "<li>{name} at ")?;
            fmt_named(path, from, f)?;
            write!(f, "</li>\n")
        }
    }
}

/// A link to the first instruction of a segment.
fn fmt_link<W: fmt::Write>(
    path: &PathToFinding<'_, '_, '_>,
    place: usize,
    segment: Segment,
    f: &mut fmt::Formatter<W>,
) -> fmt::Result {
    let number = path.number;
    let Segment { bank, first, last } = segment;
    let symbol = path.symbol(bank, first);
    let at = PathAddress {
        bank,
        address: first,
    };
    write!(f, "<li><a href=\"#o{number}s{place}\"><code>{at}")?;
    if first < last {
        write!(f, "-{last:04X}")?;
    }
    write!(
        f,
        "</code></a> <span class=\"symbol\">{symbol}</span></li>\n"
    )
}

/// The steps of the path, each a link to its instructions.
fn fmt_steps<W: fmt::Write>(
    path: &PathToFinding<'_, '_, '_>,
    f: &mut fmt::Formatter<W>,
) -> fmt::Result {
    write!(
        f,
        "<p>Steps since the last call or interrupt, with the instructions below:</p>\n<ol>\n"
    )?;
    fmt_start(path, f)?;
    if path.finding.path.is_cut {
        write!(f, "<li>earlier steps, not shown</li>\n")?;
    }
    for (place, segment) in path.finding.path.segments.iter().enumerate() {
        fmt_link(path, place, *segment, f)?;
    }
    write!(f, "</ol>\n")
}

/// An instruction, and how long it is.
fn fmt_row<W: fmt::Write>(
    path: &PathToFinding<'_, '_, '_>,
    bank: Option<u16>,
    address: u16,
    f: &mut fmt::Formatter<W>,
) -> Result<u8, fmt::Error> {
    let state = &path.finding.state;
    let symbol = path.symbol(bank, address);
    let at = PathAddress { bank, address };
    // Of an instruction only letters, digits, brackets and signs are printed that mean nothing to HTML.
    // A path is of one run: facts that its certificate would state aren't asked.
    let program = Program::unknown();
    let code = code_at(&program, path.rom, state, address);
    write!(
        f,
        "<span class=\"at\">{at}</span><span class=\"symbol\">{symbol}</span><span class=\"op\">{code}</span></div>\n"
    )?;
    Ok(length_at(&program, path.rom, state, address))
}

/// The instructions of a segment, up to the most that are shown.
fn fmt_rows<W: fmt::Write>(
    path: &PathToFinding<'_, '_, '_>,
    segment: Segment,
    f: &mut fmt::Formatter<W>,
) -> fmt::Result {
    let mut address = segment.first;
    for row in 0..ROWS {
        if row > 0 {
            write!(f, "<div class=\"node\">")?;
        }
        let length = fmt_row(path, segment.bank, address, f)?;
        let next = address.saturating_add(u16::from(length));
        if next > segment.last || next <= address {
            return Ok(());
        }
        address = next;
    }
    write!(f, "<p class=\"cut\">and so on</p>\n")
}

/// The instructions on the path. The first of a segment is where its link leads.
fn fmt_listing<W: fmt::Write>(
    path: &PathToFinding<'_, '_, '_>,
    f: &mut fmt::Formatter<W>,
) -> fmt::Result {
    let number = path.number;
    write!(
        f,
        "<details class=\"listing\"><summary>The instructions, with the bank that is mapped at the finding</summary>\n"
    )?;
    for (place, segment) in path.finding.path.segments.iter().enumerate() {
        write!(f, "<div class=\"node\" id=\"o{number}s{place}\">")?;
        fmt_rows(path, *segment, f)?;
    }
    write!(f, "</details>\n")
}

impl fmt::Display for PathToFinding<'_, '_, '_> {
    fn fmt<W: fmt::Write>(&self, f: &mut fmt::Formatter<W>) -> fmt::Result {
        fmt_steps(self, f)?;
        fmt_listing(self, f)
    }
}
