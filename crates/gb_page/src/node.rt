//! A node's lines in the listing.

use crate::names::{Address, SymbolAt};
use crate::page::Page;
use gb_reports::{
    Abs, Cell, NodeRef, Rom, ShownCell, ShownFlags, ShownRegisters, ShownSummary, code_at,
    fmt_core, program_of, target_of,
};
use std::fmt;

/// The instruction, which leads to where it jumps or calls, if that is listed.
fn fmt_code<W: fmt::Write>(
    page: &Page<'_, '_, '_, '_>,
    node: &NodeRef<'_>,
    state: &Abs,
    f: &mut fmt::Formatter<W>,
) -> fmt::Result {
    // Of an instruction only letters, digits, brackets and signs are printed that mean nothing to HTML.
    let code = code_at(
        &program_of(page.rom, page.cert),
        page.rom,
        state,
        node.address(),
    );
    match target_of(page.rom, page.cert, node, state) {
        Some(target) if page.is_listed(target) => { write!(f, "<a href=\"#n{target}\">{code}</a>") }
        _ => write!(f, "{code}"),
    }
}

/// Cells one after another.
fn fmt_cells<W: fmt::Write>(cells: &[Cell], f: &mut fmt::Formatter<W>) -> fmt::Result {
    for cell in cells {
        let cell = ShownCell(*cell);
        write!(f, " {cell}")?;
    }
    Ok(())
}

/// What a state claims for the whole program, if that is something.
fn fmt_claims<W: fmt::Write>(rom: &Rom<'_>, state: &Abs, f: &mut fmt::Formatter<W>) -> fmt::Result {
    let summary = state.summary();
    if summary.is_silent() {
        return Ok(());
    }
    let kind = rom.kind();
    write!(f, "; {}", ShownSummary { kind, summary })
}

/// What is known at a node.
fn fmt_state<W: fmt::Write>(rom: &Rom<'_>, state: &Abs, f: &mut fmt::Formatter<W>) -> fmt::Result {
    let registers = ShownRegisters(state);
    let flags = ShownFlags(state.core().flags);
    let held = state.items().len();
    write!(f, "<span class=\"state\">{registers} {flags}; ")?;
    fmt_core(state.core(), f)?;
    write!(f, ", {held} bytes on the stack")?;
    if !state.cells().is_empty() {
        write!(f, ";")?;
        fmt_cells(state.cells(), f)?;
    }
    fmt_claims(&*rom, state, f)?;
    write!(f, "</span></div>\n")
}

/// A node's lines.
pub fn fmt_node<W: fmt::Write>(
    page: &Page<'_, '_, '_, '_>,
    number: u32,
    f: &mut fmt::Formatter<W>,
) -> fmt::Result {
    if number >= page.cert.nodes() {
        return Ok(());
    }
    let node = page.cert.node(number);
    let state = node.state();
    let at = Address {
        bank: node.bank(),
        address: node.address(),
    };
    let symbol = SymbolAt {
        symbols: page.symbols,
        at,
    };
    write!(
        f,
        "<div class=\"node\" id=\"n{number}\"><a class=\"at\" href=\"#n{number}\">{at}</a><span class=\"symbol\">{symbol}</span><span class=\"op\">"
    )?;
    fmt_code(page, &node, &state, f)?;
    write!(f, "</span>")?;
    fmt_state(page.rom, &state, f)
}
