//! Applies events to machine states, as the lines of standard input ask for it, and prints what the
//! definitions say of each, so that another implementation can be compared with them.
//!
//! What an event leads to, its faults and its places are `gb_plain`'s. `setup.rt` reads the lines, `fields.rt`
//! their words, and `report.rt` prints the answers.
#![tactic(auto)]

mod fields;
mod report;
mod setup;

use crate::report::report;
use crate::setup::{Setup, SetupLine};
use std::alloc::Global;
use std::io::{self, BufRead, BufReader, BufWriter, Split, Write};

/// A line, applied; an event is reported, and a wrong line is named by its number.
fn answer<W: Write>(
    alloc: Global,
    out: &mut W,
    setup: &mut Setup,
    line: &[u8],
    number: u64,
) -> io::Result<()> {
    match setup.apply(alloc, line)? {
        SetupLine::Nothing => {}
        SetupLine::Wrong => writeln!(out, "error line {number}")?,
        SetupLine::Happens(event) => report(out, setup, event)?,
    }
    // A peer at a pipe may wait for this line before it writes the next.
    out.flush()
}

fn answer_lines<R: BufRead + Drop, W: Write>(
    alloc: Global,
    lines: Split<R>,
    out: &mut W,
    setup: &mut Setup,
) -> io::Result<()> {
    let mut number = 0u64;
    for line in lines {
        number = number.wrapping_add(1);
        answer(alloc, out, setup, &line?, number)?;
    }
    Ok(())
}

fn main(rt: HostRuntime) -> io::Result<()> {
    let mut setup = Setup::new(rt.alloc())?;
    let mut out = BufWriter::new(rt.alloc(), io::writer(&rt))?;
    let lines = BufReader::new(rt.alloc(), rt.reader())?.split(rt.alloc(), b'\n');
    answer_lines(rt.alloc(), lines, &mut out, &mut setup)
}
