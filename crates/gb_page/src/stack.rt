//! The stack: how deep it gets, by which calls, and how much room there is down to the next label.

use crate::escaped::Escaped;
use crate::interrupts::interrupt_text;
use crate::names::{NodeLink, ProcedureLink};
use crate::page::Page;
use crate::strip::{Shade, Strip, fmt_begin, fmt_end, fmt_mark};
use gb_reports::{Bound, CallLink, EnteredBy, Facts, StackStep};
use std::fmt;

/// The depth of the first procedure, with all that it calls.
fn greatest(facts: &Facts) -> u32 {
    match facts.procedures.first() {
        Some(main) => main.depth,
        None => 0,
    }
}

/// The first address of the stack that is ever used, if the depth fits.
fn lowest_used(facts: &Facts) -> u16 {
    let after = u32::from(facts.region.last).saturating_add(1);
    let lowest = after.saturating_sub(greatest(facts));
    u16::try_from(lowest).unwrap_or(facts.region.last)
}

/// How the used bytes are marked.
fn shade_of(facts: &Facts) -> Shade {
    if greatest(facts) > facts.room() {
        Shade::Over
    } else {
        Shade::Used
    }
}

/// The area as a strip.
fn fmt_region<W: fmt::Write>(facts: &Facts, f: &mut fmt::Formatter<W>) -> fmt::Result {
    let strip = Strip {
        first: facts.region.first,
        last: facts.region.last,
        name: "the stack’s area",
    };
    fmt_begin(strip, f)?;
    if greatest(facts) > 0 {
        fmt_mark(strip, shade_of(facts), lowest_used(facts), strip.last, f)?;
    }
    fmt_end(f)?;
    write!(f, "\n")
}

/// How deep it gets, and what is left.
fn fmt_sum<W: fmt::Write>(facts: &Facts, f: &mut fmt::Formatter<W>) -> fmt::Result {
    let first = facts.region.first;
    let last = facts.region.last;
    let room = facts.room();
    let used = greatest(facts);
    let left = room.saturating_sub(used);
    write!(
        f,
        "<p>The stack’s area is <code>${first:04X}-${last:04X}</code>, {room} bytes. At most <b>{used} bytes</b> are ever used, so <b>{left}</b> are free. <span class=\"quiet\">certify takes the smallest area that suffices, unless you set --stack.</span></p>\n"
    )
}

/// The next label below the bytes that are ever used, and how far down it is.
fn fmt_below<W: fmt::Write>(page: &Page<'_, '_, '_, '_>, f: &mut fmt::Formatter<W>) -> fmt::Result {
    let lowest = lowest_used(page.facts);
    let below = lowest.saturating_sub(1);
    let Some(symbol) = page.symbols.last_before(0, below) else {
        return Ok(());
    };
    let name = Escaped(symbol.name);
    let address = below.saturating_sub(symbol.offset);
    let bytes = lowest.saturating_sub(address);
    write!(
        f,
        "<p>The next label below is <span class=\"symbol\">{name}</span> at <code>${address:04X}</code>: <b>{bytes} bytes</b> below the deepest push.</p>\n"
    )
}

/// By what a link goes on.
pub fn by_text(by: EnteredBy) -> &'static str {
    match by {
        EnteredBy::Call => "call",
        EnteredBy::Interrupt(interrupt) => interrupt_text(interrupt),
    }
}

/// A step by a link.
fn fmt_link<W: fmt::Write>(
    page: &Page<'_, '_, '_, '_>,
    name: ProcedureLink<'_, '_, '_, '_, '_>,
    link: &CallLink,
    f: &mut fmt::Formatter<W>,
) -> fmt::Result {
    let by = by_text(link.by);
    let waiting = link.waiting;
    let node = NodeLink {
        page,
        node: link.node,
    };
    write!(
        f,
        "<tr><td>{name}</td><td class=\"number\">{waiting}</td><td>{by}</td><td>{node}</td></tr>\n"
    )
}

/// The last step: what a procedure holds itself.
fn fmt_own<W: fmt::Write>(
    page: &Page<'_, '_, '_, '_>,
    name: ProcedureLink<'_, '_, '_, '_, '_>,
    number: u16,
    f: &mut fmt::Formatter<W>,
) -> fmt::Result {
    let Some(procedure) = page.facts.procedures.get(usize::from(number)) else {
        return Ok(());
    };
    let bytes = procedure.own.bytes;
    let node = NodeLink {
        page,
        node: procedure.own.node,
    };
    write!(
        f,
        "<tr><td>{name}</td><td class=\"number\">{bytes}</td><td>its own bytes</td><td>{node}</td></tr>\n"
    )
}

/// A step, and the procedure that comes next.
fn fmt_step<W: fmt::Write>(
    page: &Page<'_, '_, '_, '_>,
    step: StackStep,
    f: &mut fmt::Formatter<W>,
) -> Result<Option<u16>, fmt::Error> {
    let number = step.procedure;
    let name = ProcedureLink { page, number };
    match step.link {
        Some(link) => {
            fmt_link(page, name, &link, f)?;
            Ok(link.callee)
        }
        None => {
            fmt_own(page, name, number, f)?;
            Ok(None)
        }
    }
}

/// The steps of the way to a procedure's greatest depth. Where the certificate is refused there may be a circle, so no more
/// steps are shown than a way has that passes each procedure once.
fn fmt_steps<W: fmt::Write>(
    page: &Page<'_, '_, '_, '_>,
    from: u16,
    f: &mut fmt::Formatter<W>,
) -> fmt::Result {
    let mut next = Some(from);
    for _ in 0..page.facts.longest_way() {
        let Some(number) = next else { break };
        let Some(step) = page.facts.step(number) else {
            break;
        };
        next = fmt_step(page, step, f)?;
    }
    Ok(())
}

/// The way to a procedure's greatest depth, call by call.
pub fn fmt_way<W: fmt::Write>(
    page: &Page<'_, '_, '_, '_>,
    from: u16,
    f: &mut fmt::Formatter<W>,
) -> fmt::Result {
    write!(
        f,
        "<div class=\"wide\"><table><thead><tr><th>routine</th><th class=\"number\">bytes</th><th>then</th><th>at</th></tr></thead><tbody>\n"
    )?;
    fmt_steps(page, from, f)?;
    write!(f, "</tbody></table></div>\n")
}

/// Whose a return address is by the rules of a version.
fn return_side(version: u8) -> &'static str {
    if version == 3 { "callee’s" } else { "caller’s" }
}

/// The stack's part.
pub fn fmt_stack<W: fmt::Write>(
    page: &Page<'_, '_, '_, '_>,
    f: &mut fmt::Formatter<W>,
) -> fmt::Result {
    write!(f, "<section id=\"stack\"><h2>The stack</h2>\n")?;
    if page.facts.bound == Bound::Circle {
        return write!(
            f,
            "<p>Routines call one another in a circle, so the stack’s depth is unknown.</p></section>\n"
        );
    }
    fmt_sum(page.facts, f)?;
    fmt_region(page.facts, f)?;
    fmt_below(page, f)?;
    let side = return_side(page.facts.version);
    write!(
        f,
        "<p>The deepest call chain. Each row shows the bytes that wait on the stack while the next routine runs. A return address counts among the {side} bytes.</p>\n"
    )?;
    fmt_way(page, 0, f)?;
    write!(f, "</section>\n")
}
