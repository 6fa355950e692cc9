//! A certificate as a listing: for each procedure its nodes by address, with the instruction, registers and cells. Two
//! listings can be compared line by line.

use crate::Symbols;
use crate::state::{ShownCell, ShownFlags, ShownRegisters, fmt_core};
use gb_facts::{KnownPart, ShownFact, ShownSummary};
use gb_findings::gb_ops::machine::Kind;
use gb_findings::gb_symbols::{ListedAddress, ShownAddress};
use gb_findings::{Abs, Cell, Cert, NodeRef, Range, Rom, code_at, program_of};
use std::fmt;

/// A certificate with its cartridge, and symbols.
#[derive(Clone, Copy)]
pub struct Listing<'a, 'r, 'c, 's> {
    pub rom: &'a Rom<'r>,
    pub cert: &'a Cert<'c>,
    pub symbols: &'a Symbols<'s>,
}

/// Whether a procedure may write any RAM: main, from version 3 on.
fn is_unlimited(cert: &Cert<'_>, number: u16) -> bool {
    number == 0 && cert.version() >= 3
}

/// The RAM that a procedure writes, to the end of the line.
fn fmt_ranges<W: fmt::Write>(
    is_unlimited: bool,
    ranges: &[Range],
    f: &mut fmt::Formatter<W>,
) -> fmt::Result {
    if is_unlimited {
        return write!(f, " any RAM\n");
    }
    if ranges.is_empty() {
        return write!(f, " no RAM\n");
    }
    for range in ranges {
        let first = range.first;
        let last = range.last;
        write!(f, " {first:04X}-{last:04X}")?;
    }
    write!(f, "\n")
}

/// The bytes that a procedure leaves as it found them, in a line.
fn fmt_kept<W: fmt::Write>(
    symbols: &Symbols<'_>,
    kept: &[u16],
    f: &mut fmt::Formatter<W>,
) -> fmt::Result {
    if kept.is_empty() {
        return Ok(());
    }
    let mut before = "    keeps ";
    for address in kept {
        let place = ShownAddress {
            symbols: &*symbols,
            bank: None,
            address: *address,
        };
        write!(f, "{before}{place}")?;
        before = ", ";
    }
    write!(f, "\n")
}

/// How many bytes below its base a procedure puts the stack aside, in a line.
fn fmt_mark<W: fmt::Write>(mark: u8, f: &mut fmt::Formatter<W>) -> fmt::Result {
    match mark {
        0 => Ok(()),
        _ => write!(f, "    puts the stack aside {mark} bytes below its base\n"),
    }
}

/// What a procedure says of itself.
fn fmt_procedure<W: fmt::Write>(
    listing: &Listing<'_, '_, '_, '_>,
    number: u16,
    f: &mut fmt::Formatter<W>,
) -> fmt::Result {
    if number >= listing.cert.procedures() {
        return Ok(());
    }
    let procedure = listing.cert.procedure(number);
    let need = procedure.need();
    let returns = if procedure.exit().is_some() {
        "returns"
    } else {
        "does not return"
    };
    write!(
        f,
        "\nprocedure {number}: {need} bytes of stack, {returns}, writes"
    )?;
    let is_unlimited = is_unlimited(listing.cert, number);
    fmt_ranges(is_unlimited, procedure.ranges().as_slice(), f)?;
    fmt_kept(listing.symbols, procedure.kept().as_slice(), f)?;
    fmt_mark(procedure.mark(), f)
}

/// A node's registers and flags.
fn fmt_registers<W: fmt::Write>(state: &Abs, f: &mut fmt::Formatter<W>) -> fmt::Result {
    let registers = ShownRegisters(state);
    let flags = ShownFlags(state.core().flags);
    write!(f, "        {registers} {flags}; ")
}

/// How many bytes are on the stack, to the end of the line.
fn fmt_bytes<W: fmt::Write>(state: &Abs, f: &mut fmt::Formatter<W>) -> fmt::Result {
    let bytes = state.items().len();
    write!(f, ", bytes {bytes}\n")
}

/// Cells one after another.
fn fmt_cells<W: fmt::Write>(cells: &[Cell], f: &mut fmt::Formatter<W>) -> fmt::Result {
    for cell in cells {
        let cell = ShownCell(*cell);
        write!(f, " {cell}")?;
    }
    Ok(())
}

/// A state's cells in a line, if it has some.
fn fmt_known_bytes<W: fmt::Write>(state: &Abs, f: &mut fmt::Formatter<W>) -> fmt::Result {
    if state.cells().is_empty() {
        return Ok(());
    }
    write!(f, "       ")?;
    fmt_cells(state.cells(), f)?;
    write!(f, "\n")
}

/// What a state claims for the whole program, in a line, if that is something.
fn fmt_claims<W: fmt::Write>(kind: Kind, state: &Abs, f: &mut fmt::Formatter<W>) -> fmt::Result {
    let summary = state.summary();
    if summary.is_silent() {
        return Ok(());
    }
    let shown = ShownSummary { kind, summary };
    write!(f, "        {shown}\n")
}

/// Which of the controller's registers are kept, in a line, if it's some of them.
fn fmt_kept_banks<W: fmt::Write>(state: &Abs, f: &mut fmt::Formatter<W>) -> fmt::Result {
    let kept = state.core().ctl.kept;
    if kept.are_all() || !kept.is_some() {
        return Ok(());
    }
    let shown = KnownPart::Controller(kept);
    write!(f, "        controller {shown}\n")
}

/// A node's state in a line, and what it knows besides in others, if that is something.
fn fmt_state<W: fmt::Write>(kind: Kind, state: &Abs, f: &mut fmt::Formatter<W>) -> fmt::Result {
    fmt_registers(state, f)?;
    fmt_core(state.core(), f)?;
    fmt_bytes(state, f)?;
    fmt_known_bytes(state, f)?;
    fmt_claims(kind, state, f)?;
    fmt_kept_banks(state, f)
}

/// A node's place with the instruction there, and its state.
fn fmt_at<W: fmt::Write>(
    listing: &Listing<'_, '_, '_, '_>,
    node: &NodeRef<'_>,
    state: &Abs,
    f: &mut fmt::Formatter<W>,
) -> fmt::Result {
    let address = node.address();
    let code = code_at(
        &program_of(listing.rom, listing.cert),
        listing.rom,
        state,
        address,
    );
    let bank = if address < 0x8000 {
        Some(node.bank())
    } else {
        None
    };
    let place = ListedAddress {
        symbols: listing.symbols,
        bank,
        address,
    };
    write!(f, "    {place}  {code}\n")?;
    fmt_state(listing.rom.kind(), state, f)
}

/// The procedure, if it is a new one, and a node.
fn fmt_node<W: fmt::Write>(
    listing: &Listing<'_, '_, '_, '_>,
    number: u32,
    before: Option<u16>,
    f: &mut fmt::Formatter<W>,
) -> Result<Option<u16>, fmt::Error> {
    if number >= listing.cert.nodes() {
        return Ok(before);
    }
    let node = listing.cert.node(number);
    let procedure = node.procedure();
    if before != Some(procedure) {
        fmt_procedure(listing, procedure, f)?;
    }
    let state = node.state();
    fmt_at(listing, &node, &state, f)?;
    Ok(Some(procedure))
}

/// The stack region, and how many procedures and nodes there are.
fn fmt_head<W: fmt::Write>(cert: &Cert<'_>, f: &mut fmt::Formatter<W>) -> fmt::Result {
    let region = cert.region();
    let first = region.first;
    let last = region.last;
    let nodes = cert.nodes();
    let procedures = cert.procedures();
    write!(
        f,
        "stack {first:04X}-{last:04X}, procedures {procedures}, nodes {nodes}\n"
    )
}

/// The facts, each in a line with the symbol of its first address, if that has one.
fn fmt_facts<W: fmt::Write>(
    listing: &Listing<'_, '_, '_, '_>,
    f: &mut fmt::Formatter<W>,
) -> fmt::Result {
    for (number, fact) in listing.cert.facts().iter().enumerate() {
        write!(f, "fact {number}: {}", ShownFact(*fact))?;
        // RAM's symbols have bank 0.
        if let Some(symbol) = listing.symbols.place(0, fact.first) {
            write!(f, " ({symbol})")?;
        }
        write!(f, "\n")?;
    }
    Ok(())
}

impl fmt::Display for Listing<'_, '_, '_, '_> {
    fn fmt<W: fmt::Write>(&self, f: &mut fmt::Formatter<W>) -> fmt::Result {
        fmt_head(self.cert, f)?;
        fmt_facts(self, f)?;
        let mut before = None;
        for number in 0..self.cert.nodes() {
            before = fmt_node(self, number, before, f)?;
        }
        Ok(())
    }
}
