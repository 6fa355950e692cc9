//! ROM, bank by bank.

use crate::page::Page;
use crate::strip::{Shade, Strip, fmt_begin, fmt_end, fmt_key, fmt_mark, length_of};
use gb_reports::{CodeRun, Facts};
use std::fmt;

/// A bank, by places in it.
const BANK: Strip = Strip {
    first: 0,
    last: 0x3FFF,
    name: "bank of ROM",
};

/// How many bytes of a bank are code.
fn code_in(facts: &Facts, bank: u16) -> u32 {
    let mut sum = 0u32;
    for run in &facts.code {
        if run.bank == Some(bank) {
            sum = sum.saturating_add(length_of(run.first, run.last));
        }
    }
    sum
}

/// Adds the address at which a bank is shown to a place in it.
fn shown_at(bank: u16, place: u16) -> u16 {
    if bank == 0 {
        place
    } else {
        place.saturating_add(0x4000)
    }
}

/// A run of code in a bank's strip, by the addresses at which it is usually shown.
fn fmt_run<W: fmt::Write>(bank: u16, run: &CodeRun, f: &mut fmt::Formatter<W>) -> fmt::Result {
    let start = shown_at(bank, 0);
    let area = Strip {
        first: start,
        last: start.saturating_add(BANK.last),
        name: BANK.name,
    };
    let first = shown_at(bank, run.first);
    let last = shown_at(bank, run.last);
    fmt_mark(area, Shade::Code, first, last, f)
}

/// A bank's strip.
fn fmt_strip<W: fmt::Write>(facts: &Facts, bank: u16, f: &mut fmt::Formatter<W>) -> fmt::Result {
    fmt_begin(BANK, f)?;
    for run in &facts.code {
        if run.bank == Some(bank) {
            fmt_run(bank, run, f)?;
        }
    }
    fmt_end(f)
}

/// A bank's row.
fn fmt_bank<W: fmt::Write>(facts: &Facts, bank: u16, f: &mut fmt::Formatter<W>) -> fmt::Result {
    let code = code_in(facts, bank);
    write!(
        f,
        "<div class=\"bank\"><span class=\"name\">bank {bank:02X}</span>"
    )?;
    fmt_strip(facts, bank, f)?;
    if code == 0 {
        write!(f, "<span class=\"number\">not reached</span></div>\n")
    } else {
        write!(f, "<span class=\"number\">{code} bytes</span></div>\n")
    }
}

/// ROM's part.
pub fn fmt_rom<W: fmt::Write>(
    page: &Page<'_, '_, '_, '_>,
    f: &mut fmt::Formatter<W>,
) -> fmt::Result {
    write!(f, "<section id=\"rom\"><h2>ROM, bank by bank</h2>\n<p>")?;
    fmt_key(Shade::Code, "certified code", f)?;
    write!(
        f,
        "The CPU never executes the rest. The game may read it as data.</p>\n"
    )?;
    for bank in 0..page.facts.banks {
        fmt_bank(page.facts, bank, f)?;
    }
    write!(f, "</section>\n")
}
