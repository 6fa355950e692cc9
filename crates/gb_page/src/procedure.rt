//! One procedure: who calls it, whom it calls, what it writes and keeps, its deepest way, and its listing.

use crate::listing::fmt_listing;
use crate::names::{Address, ProcedureLink, ProcedureName, SymbolAt};
use crate::page::Page;
use crate::ram::fmt_ranges;
use crate::stack::{by_text, fmt_way};
use gb_reports::{Bound, CallLink, Exit, Facts, ProcedureFacts};
use std::fmt;

/// The other end of a link: which procedure, by what, and from how many nodes.
fn fmt_end<W: fmt::Write>(
    page: &Page<'_, '_, '_, '_>,
    number: u16,
    link: &CallLink,
    f: &mut fmt::Formatter<W>,
) -> fmt::Result {
    let name = ProcedureLink { page, number };
    let by = by_text(link.by);
    let nodes = link.nodes;
    write!(
        f,
        "<span class=\"item\">{name} <span class=\"quiet\">({by}, {nodes})</span></span> "
    )
}

/// Whether a procedure is entered from somewhere.
fn is_entered(facts: &Facts, number: u16) -> bool {
    for link in &facts.links {
        if link.callee == Some(number) {
            return true;
        }
    }
    false
}

/// Whether a procedure enters something.
fn has_links(facts: &Facts, number: u16) -> bool {
    for link in &facts.links {
        if link.caller == number {
            return true;
        }
    }
    false
}

/// Who enters it.
fn fmt_callers<W: fmt::Write>(
    page: &Page<'_, '_, '_, '_>,
    number: u16,
    f: &mut fmt::Formatter<W>,
) -> fmt::Result {
    write!(f, "<dt>called from</dt><dd>")?;
    if number == 0 {
        write!(f, "power-up ")?;
    } else if !is_entered(page.facts, number) {
        write!(f, "nowhere")?;
    }
    for link in &page.facts.links {
        if link.callee == Some(number) {
            fmt_end(page, link.caller, link, f)?;
        }
    }
    write!(f, "</dd>\n")
}

/// Whom it enters, or by whom it is interrupted.
fn fmt_callees<W: fmt::Write>(
    page: &Page<'_, '_, '_, '_>,
    number: u16,
    f: &mut fmt::Formatter<W>,
) -> fmt::Result {
    write!(f, "<dt>calls</dt><dd>")?;
    if !has_links(page.facts, number) {
        write!(f, "nothing")?;
    }
    for link in &page.facts.links {
        if link.caller == number {
            match link.callee {
                Some(callee) => fmt_end(page, callee, link, f)?,
                None => fmt_end(page, number, link, f)?,
            }
        }
    }
    write!(f, "</dd>\n")
}

/// A word where something is so.
fn word_if(is_so: bool, word: &'static str) -> &'static str {
    if is_so { word } else { "" }
}

/// The bytes of RAM that a procedure gives back as they were.
fn fmt_kept_bytes<W: fmt::Write>(
    page: &Page<'_, '_, '_, '_>,
    kept: &[u16],
    f: &mut fmt::Formatter<W>,
) -> fmt::Result {
    for address in kept {
        let at = Address {
            bank: 0,
            address: *address,
        };
        let symbol = SymbolAt {
            symbols: page.symbols,
            at,
        };
        write!(f, " <code>{at}</code> {symbol}")?;
    }
    Ok(())
}

/// The registers and the bytes that an exit keeps.
fn fmt_kept<W: fmt::Write>(
    page: &Page<'_, '_, '_, '_>,
    exit: &Exit,
    kept: &[u16],
    f: &mut fmt::Formatter<W>,
) -> fmt::Result {
    let registers = exit.registers;
    let a = word_if(registers.a, "A ");
    let flags = word_if(exit.flags, "F ");
    let b = word_if(registers.b, "B ");
    let c = word_if(registers.c, "C ");
    let d = word_if(registers.d, "D ");
    let e = word_if(registers.e, "E ");
    let h = word_if(registers.h, "H ");
    let l = word_if(registers.l, "L ");
    let ie = word_if(exit.ie, "IE ");
    let controller = word_if(exit.controller, "banks and RAM gate");
    write!(
        f,
        "<dt>preserves</dt><dd>{a}{flags}{b}{c}{d}{e}{h}{l}{ie}{controller}"
    )?;
    fmt_kept_bytes(page, kept, f)?;
    write!(f, "</dd>\n")
}

/// What it gives back.
fn fmt_exit<W: fmt::Write>(
    page: &Page<'_, '_, '_, '_>,
    procedure: &ProcedureFacts,
    f: &mut fmt::Formatter<W>,
) -> fmt::Result {
    match procedure.exit {
        Some(exit) => fmt_kept(page, &exit, procedure.kept.as_slice(), f),
        None => write!(f, "<dt>returns</dt><dd>never</dd>\n"),
    }
}

/// What it may write, and what it needs.
fn fmt_writes<W: fmt::Write>(
    page: &Page<'_, '_, '_, '_>,
    number: u16,
    procedure: &ProcedureFacts,
    f: &mut fmt::Formatter<W>,
) -> fmt::Result {
    let ranges = procedure.ranges.as_slice();
    write!(f, "<dt>can write</dt><dd>")?;
    if number == 0 && page.facts.version >= 3 {
        write!(f, "all RAM")?;
    } else if ranges.is_empty() {
        write!(f, "no RAM")?;
    } else {
        fmt_ranges(ranges, f)?;
    }
    write!(f, "</dd>\n")
}

/// How deep it gets, and by which way.
fn fmt_depth<W: fmt::Write>(
    page: &Page<'_, '_, '_, '_>,
    number: u16,
    procedure: &ProcedureFacts,
    f: &mut fmt::Formatter<W>,
) -> fmt::Result {
    let own = procedure.own.bytes;
    let depth = procedure.depth;
    let need = procedure.need;
    if page.facts.bound == Bound::Circle {
        return write!(
            f,
            "<dt>stack</dt><dd>{own} bytes of its own; the certificate allows {need}</dd></dl>\n"
        );
    }
    write!(
        f,
        "<dt>stack</dt><dd>{own} bytes of its own, {depth} with all calls and interrupts; the certificate allows {need}</dd></dl>\n<details><summary>Deepest call chain</summary>\n"
    )?;
    fmt_way(page, number, f)?;
    write!(f, "</details>\n")
}

/// What there is to say of a procedure.
pub fn fmt_procedure<W: fmt::Write>(
    page: &Page<'_, '_, '_, '_>,
    number: u16,
    procedure: &ProcedureFacts,
    f: &mut fmt::Formatter<W>,
) -> fmt::Result {
    let name = ProcedureName { page, number };
    let at = Address::of(procedure);
    write!(
        f,
        "<article id=\"p{number}\"><h3>{name} <span class=\"quiet\">procedure {number}, <code>{at}</code></span></h3>\n<dl>\n"
    )?;
    fmt_callers(page, number, f)?;
    fmt_callees(page, number, f)?;
    fmt_writes(page, number, procedure, f)?;
    fmt_exit(page, procedure, f)?;
    fmt_depth(page, number, procedure, f)?;
    fmt_listing(page, number, procedure, f)?;
    write!(f, "</article>\n")
}
