//! Calls and instructions, a line each.

use crate::calls::{CallTarget, OpenCall};
use crate::recent::{HardwareBytes, Recent, RepeatedStep, StepKind, TraceStep};
use gb_ops::decode::decode;
use gb_ops::machine::CodePlace;
use gb_spelling::{Spelling, interrupt_name};
use gb_symbols::{ListedAddress, ShownAddress, ShownLabel, Symbols};
use std::fmt;

/// The most calls that are listed.
const CALLS: usize = 16;

/// The bank of a place in ROM; RAM has none.
pub fn bank_of(place: CodePlace) -> Option<u16> {
    if place.address < 0x8000 {
        Some(place.bank)
    } else {
        None
    }
}

/// A place by its symbol.
pub fn shown<'a>(symbols: &'a Symbols<'a>, place: CodePlace) -> ShownAddress<'a> {
    ShownAddress {
        symbols,
        bank: bank_of(place),
        address: place.address,
    }
}

/// A step at its place, as assemblers write it.
#[derive(Clone, Copy)]
pub struct SpelledStep {
    pub step: TraceStep,
}

impl fmt::Display for SpelledStep {
    fn fmt<W: fmt::Write>(&self, f: &mut fmt::Formatter<W>) -> fmt::Result {
        let bytes = match self.step.kind {
            StepKind::Interrupt(number) => {
                let name = interrupt_name(number);
                return write!(f, "{name} interrupt");
            }
            StepKind::Instruction(bytes) => bytes,
        };
        match decode(&bytes) {
            Some(row) => {
                let spelling = Spelling::new(row, self.step.place.address);
                write!(f, "{spelling}")
            }
            None => {
                let opcode = bytes[0];
                write!(f, "DB ${opcode:02X}")
            }
        }
    }
}

/// A call that is open, and how many times in a row it is.
fn fmt_call<W: fmt::Write>(
    symbols: &Symbols<'_>,
    call: &OpenCall,
    times: usize,
    f: &mut fmt::Formatter<W>,
) -> fmt::Result {
    let from = ShownAddress {
        symbols,
        bank: bank_of(call.from),
        address: call.from.address,
    };
    match call.called {
        CallTarget::Routine(place) => {
            let label = ShownLabel {
                symbols,
                bank: bank_of(place),
                address: place.address,
            };
            write!(f, "\n    {label}, called at {from}")?;
        }
        CallTarget::Interrupt(number) => {
            let name = interrupt_name(number);
            write!(f, "\n    {name} interrupt, at {from}")?;
        }
    }
    if times > 1 {
        write!(f, " ({times} times)")?;
    }
    Ok(())
}

/// How many of the last of some calls are the same one.
fn repeats(calls: &[OpenCall]) -> usize {
    let mut count = 0;
    for (place, call) in calls.iter().rev().enumerate() {
        match calls.last() {
            Some(last) if last.is_like(call) => count = place.saturating_add(1),
            _ => return count,
        }
    }
    count
}

/// From which frame on calls are known, where that isn't the first.
pub fn fmt_first<W: fmt::Write>(first: u32, f: &mut fmt::Formatter<W>) -> fmt::Result {
    if first > 0 {
        write!(f, "\n    and those from before frame {first}")
    } else {
        Ok(())
    }
}

/// The calls that are open, the innermost first.
pub fn fmt_calls<W: fmt::Write>(
    symbols: &Symbols<'_>,
    calls: &[OpenCall],
    f: &mut fmt::Formatter<W>,
) -> fmt::Result {
    if calls.is_empty() {
        return write!(f, "\n  Open calls: none");
    }
    write!(f, "\n  Open calls, innermost first:")?;
    let mut left = calls;
    for _ in 0..CALLS {
        let Some(call) = left.last() else {
            return Ok(());
        };
        let times = repeats(left);
        fmt_call(symbols, call, times, f)?;
        left = &left[..left.len().saturating_sub(times)];
    }
    let more = left.len();
    if more > 0 {
        write!(f, "\n    and {more} more")?;
    }
    Ok(())
}

/// What hardware gave a step.
fn fmt_given<W: fmt::Write>(given: HardwareBytes, f: &mut fmt::Formatter<W>) -> fmt::Result {
    match given {
        HardwareBytes::Nothing => Ok(()),
        HardwareBytes::Byte(byte) => write!(f, " (hardware gives ${byte:02X})"),
        HardwareBytes::Bytes(first, second) => write!(
            f,
            " (hardware gives ${first:02X}, ${second:02X})"
        ),
    }
}

/// How often a step came in a row.
fn fmt_times<W: fmt::Write>(times: u32, f: &mut fmt::Formatter<W>) -> fmt::Result {
    if times > 1 {
        write!(f, " ({times} times)")
    } else {
        Ok(())
    }
}

/// The last steps, the oldest first.
pub fn fmt_recent<W: fmt::Write>(
    symbols: &Symbols<'_>,
    recent: &Recent,
    f: &mut fmt::Formatter<W>,
) -> fmt::Result {
    write!(f, "\n  Last instructions:")?;
    for number in 0..16 {
        if let Some(RepeatedStep { step, times }) = recent.step(number) {
            let at = ListedAddress {
                symbols: &*symbols,
                bank: bank_of(step.place),
                address: step.place.address,
            };
            let spelled = SpelledStep { step };
            write!(f, "\n    {at}: {spelled}")?;
            fmt_given(step.given, f)?;
            fmt_times(times, f)?;
        }
    }
    Ok(())
}
