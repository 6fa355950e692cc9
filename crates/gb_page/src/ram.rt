//! RAM: the stack, code that runs there, and what each procedure may write.

use crate::names::ProcedureLink;
use crate::page::Page;
use crate::strip::{HIGH_RAM, Shade, Strip, WORK_RAM, fmt_begin, fmt_end, fmt_key, fmt_mark};
use gb_reports::{Facts, ProcedureFacts, Range};
use std::fmt;

/// The code that runs in RAM.
fn fmt_code<W: fmt::Write>(facts: &Facts, area: Strip, f: &mut fmt::Formatter<W>) -> fmt::Result {
    for run in &facts.code {
        if run.bank.is_none() {
            fmt_mark(area, Shade::Code, run.first, run.last, f)?;
        }
    }
    Ok(())
}

/// The strip of the stack and of code.
fn fmt_held<W: fmt::Write>(facts: &Facts, area: Strip, f: &mut fmt::Formatter<W>) -> fmt::Result {
    fmt_begin(area, f)?;
    fmt_mark(area, Shade::Stack, facts.region.first, facts.region.last, f)?;
    fmt_code(facts, area, f)?;
    fmt_end(f)
}

/// The strip of what a procedure may write.
fn fmt_written<W: fmt::Write>(
    ranges: &[Range],
    area: Strip,
    f: &mut fmt::Formatter<W>,
) -> fmt::Result {
    fmt_begin(area, f)?;
    for range in ranges {
        fmt_mark(area, Shade::Written, range.first, range.last, f)?;
    }
    fmt_end(f)
}

/// Ranges as text.
pub fn fmt_ranges<W: fmt::Write>(ranges: &[Range], f: &mut fmt::Formatter<W>) -> fmt::Result {
    for range in ranges {
        let first = range.first;
        let last = range.last;
        if first == last {
            write!(f, "<code>${first:04X}</code> ")?;
        } else {
            write!(f, "<code>${first:04X}-${last:04X}</code> ")?;
        }
    }
    Ok(())
}

/// A procedure's row.
fn fmt_row<W: fmt::Write>(
    page: &Page<'_, '_, '_, '_>,
    number: u16,
    procedure: &ProcedureFacts,
    f: &mut fmt::Formatter<W>,
) -> fmt::Result {
    let ranges = procedure.ranges.as_slice();
    let name = ProcedureLink { page, number };
    write!(f, "<div class=\"ram\"><span class=\"name\">{name}</span>")?;
    fmt_written(ranges, WORK_RAM, f)?;
    fmt_written(ranges, HIGH_RAM, f)?;
    write!(f, "<span class=\"ranges\">")?;
    fmt_ranges(ranges, f)?;
    write!(f, "</span></div>\n")
}

/// A procedure's row, if it has ranges.
fn fmt_row_at<W: fmt::Write>(
    page: &Page<'_, '_, '_, '_>,
    number: u16,
    f: &mut fmt::Formatter<W>,
) -> fmt::Result {
    match page.facts.procedures.get(usize::from(number)) {
        Some(procedure) if !procedure.ranges.as_slice().is_empty() => {
            fmt_row(page, number, procedure, f)
        }
        _ => Ok(()),
    }
}

/// The rows of the procedures that have ranges.
fn fmt_rows<W: fmt::Write>(page: &Page<'_, '_, '_, '_>, f: &mut fmt::Formatter<W>) -> fmt::Result {
    for number in 0..page.cert.procedures() {
        fmt_row_at(page, number, f)?;
    }
    Ok(())
}

/// The names of the two strips, and the row of the stack and of code.
fn fmt_first_row<W: fmt::Write>(facts: &Facts, f: &mut fmt::Formatter<W>) -> fmt::Result {
    let first = facts.region.first;
    let last = facts.region.last;
    write!(
        f,
        "<div class=\"ram head\"><span class=\"name\"></span><span>WRAM, $C000-$DFFF</span><span>HRAM, $FF80-$FFFE</span><span class=\"ranges\"></span></div>\n<div class=\"ram\"><span class=\"name\">stack and code</span>"
    )?;
    fmt_held(facts, WORK_RAM, f)?;
    fmt_held(facts, HIGH_RAM, f)?;
    write!(
        f,
        "<span class=\"ranges\"><code>${first:04X}-${last:04X}</code></span></div>\n"
    )
}

/// What the marks mean.
fn fmt_keys<W: fmt::Write>(facts: &Facts, f: &mut fmt::Formatter<W>) -> fmt::Result {
    write!(f, "<p>")?;
    fmt_key(Shade::Stack, "the stack’s area", f)?;
    fmt_key(Shade::Code, "code that runs in RAM", f)?;
    fmt_key(
        Shade::Written,
        "the routine, or what it calls, can write here",
        f,
    )?;
    if facts.version == 3 {
        write!(
            f,
            "Main can write all RAM. A routine’s own bytes on the stack aren’t marked."
        )?;
    }
    write!(f, "</p>\n")
}

/// RAM's part.
pub fn fmt_ram<W: fmt::Write>(
    page: &Page<'_, '_, '_, '_>,
    f: &mut fmt::Formatter<W>,
) -> fmt::Result {
    write!(f, "<section id=\"ram\"><h2>RAM</h2>\n")?;
    fmt_keys(page.facts, f)?;
    fmt_first_row(page.facts, f)?;
    fmt_rows(page, f)?;
    write!(f, "</section>\n")
}
