//! What a certificate claims for the whole program, as a person reads it.

use crate::difference::{bank_part, bank_text};
use crate::together::{BETWEEN, REGISTERS};
use gb_verify::gb_domain::interval::bounds;
use gb_verify::gb_domain::{Bounds, Fact, Fill, FillEnd, Reach, Shadows, StridedInterval, Summary};
use gb_verify::gb_ops::machine::Kind;
use gb_verify::gb_ops::op::Pointer;
use std::fmt;

/// Bytes, as `$C0..$F8 step 8`.
#[derive(Clone, Copy)]
pub struct ShownBytes(pub StridedInterval);

/// So many low bits that bytes have in common, as the step from one to the next; the text begins with a blank.
pub fn step_text(low_bits: u8) -> &'static str {
    match low_bits {
        0 => "",
        1 => " step 2",
        2 => " step 4",
        3 => " step 8",
        4 => " step 16",
        5 => " step 32",
        6 => " step 64",
        _ => " step 128",
    }
}

impl fmt::Display for ShownBytes {
    fn fmt<W: fmt::Write>(&self, f: &mut fmt::Formatter<W>) -> fmt::Result {
        let StridedInterval { lo, hi, count } = self.0;
        if lo == hi {
            return write!(f, "${lo:02X}");
        }
        let step = step_text(count);
        write!(f, "${lo:02X}..${hi:02X}{step}")
    }
}

/// Addresses from a first to a last one, as `$C000-$C0FF`.
#[derive(Clone, Copy)]
pub struct ShownAddresses {
    pub first: u16,
    pub last: u16,
}

impl fmt::Display for ShownAddresses {
    fn fmt<W: fmt::Write>(&self, f: &mut fmt::Formatter<W>) -> fmt::Result {
        let ShownAddresses { first, last } = *self;
        if first == last {
            write!(f, "${first:04X}")
        } else {
            write!(f, "${first:04X}-${last:04X}")
        }
    }
}

/// A fact, as `$C000-$C03C step 4 = $00..$03`.
#[derive(Clone, Copy)]
pub struct ShownFact(pub Fact);

impl fmt::Display for ShownFact {
    fn fmt<W: fmt::Write>(&self, f: &mut fmt::Formatter<W>) -> fmt::Result {
        let Fact {
            first,
            last,
            step,
            value,
        } = self.0;
        write!(f, "{}", ShownAddresses { first, last })?;
        if step != 1 && first != last {
            write!(f, " step {step}")?;
        }
        write!(f, " = {}", ShownBytes(value))
    }
}

/// The addresses of a fill, as `$C000-$C0FF below HL+1`.
#[derive(Clone, Copy)]
pub struct ShownFill(pub Fill);

fn reach_text(reach: Reach) -> &'static str {
    match reach {
        Reach::Below => "below",
        Reach::Above => "above",
    }
}

fn pointer_text(pointer: Pointer) -> &'static str {
    match pointer {
        Pointer::Bc => "BC",
        Pointer::De => "DE",
        Pointer::Hl => "HL",
        Pointer::HighC => "$FF00+C",
    }
}

/// A distance that isn't 0, with its sign; it is given in offset binary.
fn fmt_distance<W: fmt::Write>(offset: u16, f: &mut fmt::Formatter<W>) -> fmt::Result {
    if offset == 0x8000 {
        return Ok(());
    }
    let sign = if offset < 0x8000 { "-" } else { "+" };
    let distance = offset.abs_diff(0x8000);
    write!(f, "{sign}{distance}")
}

fn fmt_end<W: fmt::Write>(end: FillEnd, f: &mut fmt::Formatter<W>) -> fmt::Result {
    let reach = reach_text(end.reach);
    let pointer = pointer_text(end.pointer);
    write!(f, " {reach} {pointer}")?;
    fmt_distance(end.offset, f)
}

impl fmt::Display for ShownFill {
    fn fmt<W: fmt::Write>(&self, f: &mut fmt::Formatter<W>) -> fmt::Result {
        let Fill {
            first,
            last,
            end,
            ..
        } = self.0;
        write!(f, "{}", ShownAddresses { first, last })?;
        match end {
            None => Ok(()),
            Some(end) => fmt_end(end, f),
        }
    }
}

/// What a state of a cartridge with this controller claims, as `facts 2; $C000-$C0FF below HL = $00; A = $FF80 = the mapped bank`.
#[derive(Clone, Copy)]
pub struct ShownSummary<'a> {
    pub kind: Kind,
    pub summary: &'a Summary,
}

/// How many facts hold, and what separates that from what follows.
fn fmt_level<W: fmt::Write>(
    level: u16,
    f: &mut fmt::Formatter<W>,
) -> Result<&'static str, fmt::Error> {
    if level == 0 {
        return Ok("");
    }
    write!(f, "facts {level}")?;
    Ok(BETWEEN)
}

/// Prints fills after this text, and answers what separates them from what follows.
fn fmt_fills<W: fmt::Write>(
    before: &'static str,
    fills: &[Fill],
    f: &mut fmt::Formatter<W>,
) -> Result<&'static str, fmt::Error> {
    let mut before = before;
    for fill in fills {
        let addresses = ShownFill(*fill);
        let bytes = ShownBytes(bounds(fill.lo, fill.hi));
        write!(f, "{before}{addresses} = {bytes}")?;
        before = BETWEEN;
    }
    Ok(before)
}

/// Prints the places that hold this after this text, and answers what separates them from what follows.
fn fmt_places<W: fmt::Write>(
    before: &'static str,
    places: &Shadows,
    held: &str,
    f: &mut fmt::Formatter<W>,
) -> Result<&'static str, fmt::Error> {
    let mut next = before;
    let mut is_some = false;
    for register in REGISTERS {
        if places.registers.get(register) {
            write!(f, "{next}{}", register.name())?;
            next = " = ";
            is_some = true;
        }
    }
    if let Some(address) = places.address {
        write!(f, "{next}${address:04X}")?;
        is_some = true;
    }
    if !is_some {
        return Ok(before);
    }
    write!(f, " = {held}")?;
    Ok(BETWEEN)
}

impl fmt::Display for ShownSummary<'_> {
    fn fmt<W: fmt::Write>(&self, f: &mut fmt::Formatter<W>) -> fmt::Result {
        let ShownSummary { kind, summary } = *self;
        let shadows = summary.shadows();
        let bank = bank_text(bank_part(kind, false));
        let second = bank_text(bank_part(kind, true));
        let before = fmt_level(summary.level(), f)?;
        let before = fmt_fills(before, summary.fills(), f)?;
        let before = fmt_places(before, &shadows.first, bank, f)?;
        let before = fmt_places(before, &shadows.second, second, f)?;
        match summary.aside() {
            None => Ok(()),
            Some(Bounds { first, last }) => {
                let addresses = ShownAddresses { first, last };
                write!(f, "{before}SP aside at {addresses}")
            }
        }
    }
}
