//! The text of a list of events: one event a line.

use crate::list::EventList;
use gb_ops::machine::Event;
use std::alloc::{AllocError, Global};
use std::io::{self, Write};
use std::str::SplitWhitespace;

/// What is wrong with a line.
#[derive(Clone, Copy, Debug, PartialEq, Eq)]
pub enum LineFault {
    /// It is no event.
    NoEvent,
    /// With it the events are more than 2^64 - 1.
    TooMany,
}

/// A line that can't be taken, counted from 1.
#[derive(Clone, Copy, Debug, PartialEq, Eq)]
pub struct BadLine {
    pub number: u64,
    pub fault: LineFault,
}

/// The value of a hexadecimal digit.
fn digit(byte: u8) -> Option<u8> {
    match byte {
        b'0'..=b'9' => Some(byte - b'0'),
        b'A'..=b'F' => Some(byte - b'A' + 10),
        b'a'..=b'f' => Some(byte - b'a' + 10),
        _ => None,
    }
}

/// Exactly so many bytes, two digits each.
fn bytes_of<const N: usize>(word: &str) -> Option<[u8; N]> {
    let digits = word.as_bytes();
    if digits.len() / 2 != N || digits.len() % 2 != 0 {
        return None;
    }
    let mut bytes = [0u8; N];
    for (byte, pair) in bytes.iter_mut().zip(digits.chunks(2)) {
        let [high, low] = pair else {
            return None;
        };
        *byte = digit(*high)?.wrapping_mul(16).wrapping_add(digit(*low)?);
    }
    Some(bytes)
}

/// A decimal number.
fn number_of(word: &str) -> Option<u64> {
    word.parse::<u64>().ok()
}

/// How often: `xN`, and once where there is no word.
fn count_of(word: Option<&str>) -> Option<u32> {
    match word {
        None => Some(1),
        Some(word) => word.strip_prefix("x")?.parse::<u32>().ok(),
    }
}

/// An instruction: after `run` its free bytes, where there are any, and how often.
fn instruction(words: &mut SplitWhitespace<'_>) -> Option<(Event, u32)> {
    let none = Event::Run {
        fetch: [0; 3],
        reads: [0; 2],
    };
    let first = words.next();
    match first {
        Some(word) if word.len() == 6 && !word.starts_with("x") => {
            let fetch = bytes_of::<3>(word)?;
            let reads = bytes_of::<2>(words.next()?)?;
            Some((Event::Run { fetch, reads }, count_of(words.next())?))
        }
        _ => Some((none, count_of(first)?)),
    }
}

/// The event of a line that isn't empty, and how often it comes.
fn event_of(kind: &str, words: &mut SplitWhitespace<'_>) -> Option<(Event, u32)> {
    let event = match kind {
        "run" => return instruction(words),
        "haltstay" => Event::HaltStay,
        "haltbug" => Event::HaltBug,
        "irq" => {
            let number = number_of(words.next()?)?;
            if number > 4 {
                return None;
            }
            Event::Irq(number as u8)
        }
        "wait" => Event::Wait(number_of(words.next()?)?),
        _ => return None,
    };
    Some((event, count_of(words.next())?))
}

/// Reads a line, and adds its events. Answers what is wrong with it, if something is.
fn read_line(line: &str, list: &mut EventList) -> Result<Option<LineFault>, AllocError> {
    let mut words = line.split_whitespace();
    let Some(kind) = words.next() else {
        return Ok(None);
    };
    if kind.starts_with("#") {
        return Ok(None);
    }
    match event_of(kind, &mut words) {
        Some((event, count)) if words.next().is_none() => {
            if u64::from(count) > u64::MAX - list.total() {
                return Ok(Some(LineFault::TooMany));
            }
            list.push(event, count)?;
            Ok(None)
        }
        _ => Ok(Some(LineFault::NoEvent)),
    }
}

/// The list of a file's text, or the first line that can't be taken.
///
/// # Errors
///
/// AllocError where there is no room.
pub fn read_events(alloc: Global, text: &str) -> Result<Result<EventList, BadLine>, AllocError> {
    let mut list = EventList::new(alloc);
    let mut number = 0u64;
    for line in text.lines() {
        number = number.saturating_add(1);
        if let Some(fault) = read_line(line, &mut list)? {
            return Ok(Err(BadLine { number, fault }));
        }
    }
    Ok(Ok(list))
}

/// Writes an instruction with its free bytes.
fn write_run<W: Write>(out: &mut W, fetch: [u8; 3], reads: [u8; 2]) -> io::Result<()> {
    let [first, second, third] = fetch;
    let [low, high] = reads;
    write!(
        out,
        "run {first:02X}{second:02X}{third:02X} {low:02X}{high:02X}"
    )
}

/// Writes a word and a number.
fn write_numbered<W: Write>(out: &mut W, word: &str, number: u64) -> io::Result<()> {
    write!(out, "{word} {number}")
}

/// Writes an event's line.
fn write_event<W: Write>(out: &mut W, event: Event, count: u32) -> io::Result<()> {
    match event {
        Event::Run { fetch, reads } => {
            if fetch == [0, 0, 0] && reads == [0, 0] {
                out.write_all(b"run")?;
            } else {
                write_run(out, fetch, reads)?;
            }
        }
        Event::HaltStay => out.write_all(b"haltstay")?,
        Event::HaltBug => out.write_all(b"haltbug")?,
        Event::Irq(i) => write_numbered(out, "irq", u64::from(i))?,
        Event::Wait(cycles) => write_numbered(out, "wait", cycles)?,
    }
    if count != 1 {
        write!(out, " x{count}")?;
    }
    out.write_all(b"\n")
}

/// Writes a list's lines.
///
/// # Errors
///
/// As the writer has them.
pub fn write_events<W: Write>(out: &mut W, list: &EventList) -> io::Result<()> {
    for item in list.as_slice() {
        write_event(out, item.event, item.count)?;
    }
    Ok(())
}
