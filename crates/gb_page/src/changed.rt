//! The words on what a new certificate changed.

use crate::changes::{Build, Changes};
use crate::escaped::Escaped;
use crate::interrupts::interrupt_text;
use gb_reports::gb_ops::machine::Region;
use gb_reports::{Difference, Interrupt, Range, Side};
use std::fmt;

/// A difference in a line, without its end.
#[derive(Clone, Copy)]
struct ChangeLine<'a> {
    changes: &'a Changes,
    difference: Difference,
}

/// The stack's region.
fn fmt_region<W: fmt::Write>(
    before: Region,
    now: Region,
    f: &mut fmt::Formatter<W>,
) -> fmt::Result {
    let (first, last) = (now.first, now.last);
    let (old_first, old_last) = (before.first, before.last);
    write!(
        f,
        "stack area: ${first:04X}-${last:04X} (was ${old_first:04X}-${old_last:04X})"
    )
}

/// A procedure that is new or gone.
fn fmt_procedure<W: fmt::Write>(
    side: Side,
    name: &str,
    need: u16,
    f: &mut fmt::Formatter<W>,
) -> fmt::Result {
    match side {
        Side::New => write!(f, "{name}: new, {need} bytes of stack"),
        Side::Gone => write!(f, "{name}: gone, {need} bytes of stack"),
    }
}

/// The bytes of stack that are allowed.
fn fmt_need<W: fmt::Write>(
    place: usize,
    name: &str,
    before: u16,
    now: u16,
    f: &mut fmt::Formatter<W>,
) -> fmt::Result {
    if place == 0 {
        write!(f, "stack: {now} bytes in all (was {before})")
    } else {
        write!(f, "{name}: {now} bytes of stack (was {before})")
    }
}

/// Some RAM that may be written.
fn fmt_writes<W: fmt::Write>(
    side: Side,
    name: &str,
    range: Range,
    f: &mut fmt::Formatter<W>,
) -> fmt::Result {
    let (first, last) = (range.first, range.last);
    match side {
        Side::New => write!(f, "{name}: can now write ${first:04X}-${last:04X}"),
        Side::Gone => write!(f, "{name}: no longer writes ${first:04X}-${last:04X}"),
    }
}

/// An interrupt.
fn fmt_coming<W: fmt::Write>(
    side: Side,
    name: &str,
    interrupt: Interrupt,
    f: &mut fmt::Formatter<W>,
) -> fmt::Result {
    let interrupt = interrupt_text(interrupt);
    match side {
        Side::New => write!(f, "{name}: {interrupt} can now interrupt it"),
        Side::Gone => write!(f, "{name}: {interrupt} no longer interrupts it"),
    }
}

/// A bank.
fn fmt_bank<W: fmt::Write>(side: Side, bank: u16, f: &mut fmt::Formatter<W>) -> fmt::Result {
    match side {
        Side::New => write!(f, "bank {bank:02X}: has code that is reached now"),
        Side::Gone => write!(f, "bank {bank:02X}: has no code that is reached any more"),
    }
}

/// The name of a procedure that is there now, or was.
pub(crate) fn name_of<'a>(changes: &'a Changes, side: Side, place: usize) -> &'a str {
    match side {
        Side::New => changes.now.name(place),
        Side::Gone => changes.before.name(place),
    }
}

impl fmt::Display for ChangeLine<'_> {
    fn fmt<W: fmt::Write>(&self, f: &mut fmt::Formatter<W>) -> fmt::Result {
        let changes = self.changes;
        match self.difference {
            Difference::Region { before, now } => fmt_region(before, now, f),
            Difference::Procedure { side, place, need } => {
                fmt_procedure(side, name_of(changes, side, place), need, f)
            }
            Difference::Need { place, before, now } => {
                fmt_need(place, changes.now.name(place), before, now, f)
            }
            Difference::Writes { side, place, range } => {
                fmt_writes(side, changes.now.name(place), range, f)
            }
            Difference::Coming {
                side,
                place,
                interrupt,
            } => fmt_coming(side, changes.now.name(place), interrupt, f),
            Difference::Bank { side, bank } => fmt_bank(side, bank, f),
        }
    }
}

/// The procedures of the deepest call chain.
#[derive(Clone, Copy)]
struct DeepestCalls<'a>(&'a Build);

impl fmt::Display for DeepestCalls<'_> {
    fn fmt<W: fmt::Write>(&self, f: &mut fmt::Formatter<W>) -> fmt::Result {
        for (step, place) in self.0.way.iter().enumerate() {
            let name = self.0.name(*place);
            if step > 0 {
                write!(f, " -> ")?;
            }
            write!(f, "{name}")?;
        }
        Ok(())
    }
}

/// The procedures of a deepest call chain that has the same names as before, with the bytes of those that hold more or less.
#[derive(Clone, Copy)]
struct SameCalls<'a>(&'a Changes);

impl fmt::Display for SameCalls<'_> {
    fn fmt<W: fmt::Write>(&self, f: &mut fmt::Formatter<W>) -> fmt::Result {
        let Changes { before, now, .. } = self.0;
        for (step, place) in now.way.iter().enumerate() {
            let name = now.name(*place);
            let (old_bytes, bytes) = (before.held_at(step), now.held_at(step));
            if step > 0 {
                write!(f, " -> ")?;
            }
            write!(f, "{name}")?;
            if bytes != old_bytes {
                write!(f, " ({bytes} bytes, was {old_bytes})")?;
            }
        }
        Ok(())
    }
}

/// Whether two deepest call chains have the same names.
fn has_same_names(before: &Build, now: &Build) -> bool {
    if before.way.len() != now.way.len() {
        return false;
    }
    for (old_place, place) in before.way.iter().zip(&now.way) {
        if before.name(*old_place) != now.name(*place) {
            return false;
        }
    }
    true
}

/// The deepest call chain, now and before, without an end of the line.
#[derive(Clone, Copy)]
struct DeepestChange<'a>(&'a Changes);

impl fmt::Display for DeepestChange<'_> {
    fn fmt<W: fmt::Write>(&self, f: &mut fmt::Formatter<W>) -> fmt::Result {
        let Changes { before, now, .. } = self.0;
        let calls = DeepestCalls(now);
        if before.way.is_empty() {
            write!(f, "deepest call chain: {calls}")
        } else if has_same_names(before, now) {
            let calls = SameCalls(self.0);
            write!(f, "deepest call chain: {calls}")
        } else {
            let old_calls = DeepestCalls(before);
            write!(f, "deepest call chain: {calls} (was {old_calls})")
        }
    }
}

impl fmt::Display for Changes {
    /// A line for each difference, each with its end.
    fn fmt<W: fmt::Write>(&self, f: &mut fmt::Formatter<W>) -> fmt::Result {
        if self.is_none() {
            return write!(
                f,
                "no changes in stack, routines, RAM writes, interrupts or banks\n"
            );
        }
        if self.has_way() {
            let ways = DeepestChange(self);
            write!(f, "{ways}\n")?;
        }
        for difference in &self.differences {
            let line = ChangeLine {
                changes: self,
                difference: *difference,
            };
            write!(f, "{line}\n")?;
        }
        Ok(())
    }
}
