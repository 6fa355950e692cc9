//! Keys that crash a cartridge, on the page of its findings and as JSON.

use crate::escaped::Escaped;
use crate::screen::{Screen, fmt_picture};
use gb_reports::gb_ops::machine::{CodePlace, Region};
use gb_reports::{JsonObject, Symbols};
use serde_json::Value;
use std::alloc::{AllocError, Global};
use std::fmt;

/// Which finding a crash belongs to.
#[derive(Clone, Copy, PartialEq, Eq)]
pub enum CrashFinding {
    /// None, as far as is known.
    Unknown,
    /// The first, which is at its place.
    First,
    /// The one with this number, whose place ran before it in the same frame.
    Before(u32),
}

/// A crash that keys lead to, with what is said of it.
#[derive(Clone, Copy)]
pub struct Crash<'a> {
    /// The line that `gulmyrek watch` prints for the keys, without its end.
    pub line: &'a str,
    /// The number of the fault, from 1 to 5.
    pub fault: u8,
    /// The frame of the fault, counted from 0.
    pub frame: u32,
    /// Where the processor was before it.
    pub place: CodePlace,
    /// What happened before it, in lines.
    pub story: &'a str,
    /// The keys in words.
    pub keys: &'a str,
    /// The keys as `tools/keys` reads them.
    pub key_words: &'a str,
    /// The file of the keys, where it could be written.
    pub keys_file: Option<&'a str>,
    /// How the keys are played again.
    pub replay: &'a str,
    /// The stack region for which it is a fault.
    pub region: Region,
    pub finding: CrashFinding,
    /// The screen at the fault.
    pub screen: &'a Screen,
}

/// Which finding it belongs to.
fn fmt_finding<W: fmt::Write>(finding: CrashFinding, f: &mut fmt::Formatter<W>) -> fmt::Result {
    match finding {
        CrashFinding::Unknown => write!(f, "<p>No finding is at this place.</p>\n"),
        CrashFinding::First => write!(
            f,
            "<p><a href=\"#o1\">Finding 1</a> is at this place.</p>\n"
        ),
        CrashFinding::Before(number) => write!(
            f,
            "<p>No finding is at this place. The instruction of <a href=\"#o{number}\">finding {number}</a> ran before it, in the same frame.</p>\n"
        ),
    }
}

/// The keys, and how they are played again.
fn fmt_keys<W: fmt::Write>(crash: &Crash<'_>, f: &mut fmt::Formatter<W>) -> fmt::Result {
    let keys = Escaped(crash.keys);
    let replay = Escaped(crash.replay);
    write!(
        f,
        "<h3>The keys from power-up</h3>\n<p>{keys}</p>\n<h3>Play it again</h3>\n<p><code>{replay}</code></p>\n"
    )
}

/// The crash's part.
pub(crate) fn fmt_crash<W: fmt::Write>(
    crash: &Crash<'_>,
    f: &mut fmt::Formatter<W>,
) -> fmt::Result {
    let line = Escaped(crash.line);
    let story = Escaped(crash.story);
    write!(
        f,
        "<section id=\"crash\"><h2>This crashes</h2>\n<p>certify hunted for keys that crash the game, and found some.</p>\n<p><code>{line}</code></p>\n"
    )?;
    fmt_finding(crash.finding, f)?;
    write!(f, "<pre>{story}</pre>\n")?;
    fmt_keys(crash, f)?;
    write!(f, "<h3>The screen at that moment</h3>\n")?;
    fmt_picture(crash.screen, "the screen at the crash", f)?;
    write!(f, "</section>\n")
}

/// Where it is.
fn put_place(
    object: &mut JsonObject,
    place: CodePlace,
    symbols: &Symbols<'_>,
) -> Result<(), AllocError> {
    object.put_address("address", place.address)?;
    object.put_address("bank", place.bank)?;
    match symbols.place(place.bank, place.address) {
        Some(symbol) => object.put_shown("symbol", &symbol)?,
        None => object.put("symbol", Value::Null)?,
    }
    match symbols.line(place.bank, place.address) {
        Some(line) => object.put_shown("line", &line),
        None => object.put("line", Value::Null),
    }
}

/// The keys, and the file that has them.
fn put_keys(object: &mut JsonObject, crash: &Crash<'_>) -> Result<(), AllocError> {
    object.put_text("keys", crash.key_words)?;
    match crash.keys_file {
        Some(name) => object.put_text("keys_file", name),
        None => object.put("keys_file", Value::Null),
    }
}

/// The stack region.
fn put_stack(object: &mut JsonObject, region: Region) -> Result<(), AllocError> {
    let mut stack = JsonObject::new(object.alloc);
    stack.put_address("first", region.first)?;
    stack.put_address("last", region.last)?;
    object.put("stack", stack.finish())
}

/// The number of the finding that it belongs to, and whether that is at its place.
fn put_finding(object: &mut JsonObject, finding: CrashFinding) -> Result<(), AllocError> {
    match finding {
        CrashFinding::Unknown => object.put("finding", Value::Null)?,
        CrashFinding::First => object.put_number("finding", 1)?,
        CrashFinding::Before(number) => object.put_number("finding", u64::from(number))?,
    }
    object.put_flag("is_at_finding", finding == CrashFinding::First)
}

/// What it is.
fn put_crash(
    object: &mut JsonObject,
    crash: &Crash<'_>,
    symbols: &Symbols<'_>,
) -> Result<(), AllocError> {
    object.put_number("fault", u64::from(crash.fault))?;
    object.put_number("frame", u64::from(crash.frame))?;
    put_place(object, crash.place, symbols)?;
    put_keys(object, crash)?;
    put_stack(object, crash.region)?;
    object.put_text("story", crash.story)?;
    put_finding(object, crash.finding)
}

/// The JSON of a crash: an object whose only member is `crash`, in one line without its end.
///
/// # Errors
///
/// Where memory ran out.
pub fn crash_json(
    alloc: Global,
    crash: &Crash<'_>,
    symbols: &Symbols<'_>,
) -> Result<String, AllocError> {
    let mut inner = JsonObject::new(alloc);
    put_crash(&mut inner, crash, symbols)?;
    let mut object = JsonObject::new(alloc);
    object.put("crash", inner.finish())?;
    object.finish().to_string(alloc)
}
