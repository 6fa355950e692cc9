//! Where each interrupt can fire.

use crate::names::ProcedureLink;
use crate::page::Page;
use gb_reports::{CallLink, EnteredBy, Facts, INTERRUPTS, Interrupt};
use std::fmt;

/// An interrupt's name.
pub fn interrupt_text(interrupt: Interrupt) -> &'static str {
    match interrupt {
        Interrupt::VBlank => "VBlank",
        Interrupt::Lcd => "STAT",
        Interrupt::Timer => "timer",
        Interrupt::Serial => "serial",
        Interrupt::Joypad => "joypad",
    }
}

/// Whether a link is by this interrupt.
fn is_by(link: &CallLink, interrupt: Interrupt) -> bool {
    link.by == EnteredBy::Interrupt(interrupt)
}

/// At how many nodes an interrupt may come.
fn nodes_of(facts: &Facts, interrupt: Interrupt) -> u32 {
    let mut sum = 0u32;
    for link in &facts.links {
        if is_by(link, interrupt) {
            sum = sum.saturating_add(link.nodes);
        }
    }
    sum
}

/// Whether an interrupt enters a procedure.
fn has_handler(facts: &Facts, interrupt: Interrupt, callee: u16) -> bool {
    for link in &facts.links {
        if is_by(link, interrupt) && link.callee == Some(callee) {
            return true;
        }
    }
    false
}

/// Whether an interrupt is handled by the procedure in which it comes.
fn is_inlined(facts: &Facts, interrupt: Interrupt) -> bool {
    for link in &facts.links {
        if is_by(link, interrupt) && link.callee.is_none() {
            return true;
        }
    }
    false
}

/// The procedures that handle an interrupt.
fn fmt_handlers<W: fmt::Write>(
    page: &Page<'_, '_, '_, '_>,
    interrupt: Interrupt,
    f: &mut fmt::Formatter<W>,
) -> fmt::Result {
    for number in 0..page.cert.procedures() {
        if has_handler(page.facts, interrupt, number) {
            let handler = ProcedureLink { page, number };
            write!(f, "{handler} ")?;
        }
    }
    if is_inlined(page.facts, interrupt) {
        write!(f, "inside the routine itself")?;
    }
    Ok(())
}

/// The procedures in which an interrupt may come.
fn fmt_places<W: fmt::Write>(
    page: &Page<'_, '_, '_, '_>,
    interrupt: Interrupt,
    f: &mut fmt::Formatter<W>,
) -> fmt::Result {
    for link in &page.facts.links {
        if is_by(link, interrupt) {
            let name = ProcedureLink {
                page,
                number: link.caller,
            };
            let nodes = link.nodes;
            write!(
                f,
                "<span class=\"item\">{name} <span class=\"quiet\">({nodes})</span></span> "
            )?;
        }
    }
    Ok(())
}

/// An interrupt's row.
fn fmt_interrupt<W: fmt::Write>(
    page: &Page<'_, '_, '_, '_>,
    interrupt: Interrupt,
    f: &mut fmt::Formatter<W>,
) -> fmt::Result {
    let name = interrupt_text(interrupt);
    let vector = interrupt.vector();
    let nodes = nodes_of(page.facts, interrupt);
    write!(
        f,
        "<tr><td>{name}</td><td><code>${vector:04X}</code></td><td class=\"number\">{nodes}</td><td>"
    )?;
    if nodes == 0 {
        return write!(f, "</td><td class=\"quiet\">never fires</td></tr>\n");
    }
    fmt_handlers(page, interrupt, f)?;
    write!(f, "</td><td>")?;
    fmt_places(page, interrupt, f)?;
    write!(f, "</td></tr>\n")
}

/// Whether a link is an interrupt inside of a handler.
fn is_nested(facts: &Facts, link: &CallLink) -> bool {
    match (link.by, facts.procedures.get(usize::from(link.caller))) {
        (EnteredBy::Interrupt(_), Some(caller)) => caller.is_in_handler,
        _ => false,
    }
}

/// The interrupts that may come inside of handlers, and how many there are.
fn fmt_nested<W: fmt::Write>(
    page: &Page<'_, '_, '_, '_>,
    f: &mut fmt::Formatter<W>,
) -> Result<u32, fmt::Error> {
    let mut count = 0u32;
    for link in &page.facts.links {
        if !is_nested(page.facts, link) {
            continue;
        }
        if let EnteredBy::Interrupt(interrupt) = link.by {
            let name = ProcedureLink {
                page,
                number: link.caller,
            };
            let interrupt = interrupt_text(interrupt);
            write!(f, "<span class=\"item\">{interrupt} in {name}</span> ")?;
            count = count.saturating_add(1);
        }
    }
    Ok(count)
}

/// Whether handlers nest.
fn fmt_nesting<W: fmt::Write>(
    page: &Page<'_, '_, '_, '_>,
    f: &mut fmt::Formatter<W>,
) -> fmt::Result {
    write!(
        f,
        "<p>Interrupts inside handlers or the routines that they call: "
    )?;
    if fmt_nested(page, f)? == 0 {
        write!(f, "none, so handlers don’t nest.")?;
    }
    write!(f, "</p>\n")
}

/// The interrupts' part.
pub fn fmt_interrupts<W: fmt::Write>(
    page: &Page<'_, '_, '_, '_>,
    f: &mut fmt::Formatter<W>,
) -> fmt::Result {
    write!(
        f,
        "<section id=\"interrupts\"><h2>Interrupts</h2>\n<div class=\"wide\"><table><thead><tr><th>interrupt</th><th>vector</th><th class=\"number\">nodes</th><th>handler</th><th>can fire in (number of nodes)</th></tr></thead><tbody>\n"
    )?;
    for interrupt in INTERRUPTS {
        fmt_interrupt(page, *interrupt, f)?;
    }
    write!(f, "</tbody></table></div>\n")?;
    fmt_nesting(page, f)?;
    write!(f, "</section>\n")
}
