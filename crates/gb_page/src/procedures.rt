//! All procedures: as a table, and then one by one.

use crate::names::{Address, ProcedureLink};
use crate::page::Page;
use crate::procedure::fmt_procedure;
use gb_reports::{Bound, ProcedureFacts};
use std::fmt;

/// How deep a procedure gets, where that is known.
#[derive(Clone, Copy)]
struct Depth {
    bound: Bound,
    bytes: u32,
}

impl fmt::Display for Depth {
    fn fmt<W: fmt::Write>(&self, f: &mut fmt::Formatter<W>) -> fmt::Result {
        let bytes = self.bytes;
        match self.bound {
            Bound::Known => write!(f, "{bytes}"),
            Bound::Circle => write!(f, "unknown"),
        }
    }
}

/// A procedure's row.
fn fmt_row<W: fmt::Write>(
    page: &Page<'_, '_, '_, '_>,
    number: u16,
    procedure: &ProcedureFacts,
    f: &mut fmt::Formatter<W>,
) -> fmt::Result {
    let name = ProcedureLink { page, number };
    let at = Address::of(procedure);
    let nodes = procedure.nodes;
    let own = procedure.own.bytes;
    let depth = Depth {
        bound: page.facts.bound,
        bytes: procedure.depth,
    };
    let need = procedure.need;
    write!(
        f,
        "<tr><td>{name}</td><td><code>{at}</code></td><td class=\"number\">{nodes}</td><td class=\"number\">{own}</td>"
    )?;
    write!(
        f,
        "<td class=\"number\">{depth}</td><td class=\"number\">{need}</td></tr>\n"
    )
}

/// The table.
fn fmt_table<W: fmt::Write>(page: &Page<'_, '_, '_, '_>, f: &mut fmt::Formatter<W>) -> fmt::Result {
    write!(
        f,
        "<div class=\"wide\"><table><thead><tr><th>routine</th><th>address</th><th class=\"number\">nodes</th><th class=\"number\">own bytes</th><th class=\"number\">with calls</th><th class=\"number\">allowed</th></tr></thead><tbody>\n"
    )?;
    for number in 0..page.cert.procedures() {
        if let Some(procedure) = page.facts.procedures.get(usize::from(number)) {
            fmt_row(page, number, procedure, f)?;
        }
    }
    write!(f, "</tbody></table></div>\n")
}

/// Whether the listing is cut.
fn fmt_cut<W: fmt::Write>(nodes: u32, listed: u32, f: &mut fmt::Formatter<W>) -> fmt::Result {
    if nodes <= listed {
        return Ok(());
    }
    write!(
        f,
        "<p class=\"cut\">This page lists the first {listed} of {nodes} nodes. <code>certify --list</code> prints all of them.</p>\n"
    )
}

/// The procedures' part.
pub fn fmt_procedures<W: fmt::Write>(
    page: &Page<'_, '_, '_, '_>,
    f: &mut fmt::Formatter<W>,
) -> fmt::Result {
    write!(
        f,
        "<section id=\"procedures\"><h2>Routines</h2>\n<p>Stack use in bytes: the routine’s own, the most with all calls and interrupts, and what the certificate allows. Main is where the console starts. A routine is listed once for each bank or value that matters to it.</p>\n"
    )?;
    fmt_table(page, f)?;
    fmt_cut(page.facts.nodes, page.extras.listed, f)?;
    for number in 0..page.cert.procedures() {
        if let Some(procedure) = page.facts.procedures.get(usize::from(number)) {
            fmt_procedure(page, number, procedure, f)?;
        }
    }
    write!(f, "</section>\n")
}
