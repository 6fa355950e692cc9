//! The listing of a procedure, folded.

use crate::node::fmt_node;
use crate::page::Page;
use gb_reports::ProcedureFacts;
use std::fmt;

/// The first of a procedure's nodes, which follow one another: those before it are counted.
fn first_of(page: &Page<'_, '_, '_, '_>, number: u16) -> u32 {
    let mut first = 0u32;
    for (place, procedure) in page.facts.procedures.iter().enumerate() {
        if place < usize::from(number) {
            first = first.saturating_add(procedure.nodes);
        }
    }
    first
}

/// The lines of some nodes.
fn fmt_nodes<W: fmt::Write>(
    page: &Page<'_, '_, '_, '_>,
    first: u32,
    after: u32,
    f: &mut fmt::Formatter<W>,
) -> fmt::Result {
    for number in first..after {
        if page.is_listed(number) {
            fmt_node(page, number, f)?;
        }
    }
    Ok(())
}

/// The listing of a procedure.
pub fn fmt_listing<W: fmt::Write>(
    page: &Page<'_, '_, '_, '_>,
    number: u16,
    procedure: &ProcedureFacts,
    f: &mut fmt::Formatter<W>,
) -> fmt::Result {
    let nodes = procedure.nodes;
    let first = first_of(page, number);
    let after = first.saturating_add(nodes);
    write!(
        f,
        "<details class=\"listing\"><summary>Listing, {nodes} nodes</summary>\n"
    )?;
    fmt_nodes(page, first, after, f)?;
    write!(f, "</details>\n")
}
