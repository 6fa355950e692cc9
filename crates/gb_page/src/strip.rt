//! Strips: a part of memory as a bar, with marks where something is.

use std::fmt;

/// What a mark means.
#[derive(Clone, Copy)]
pub enum Shade {
    Code,
    Stack,
    Used,
    /// More than there is room for.
    Over,
    Written,
}

/// The class of a mark.
fn class_of(shade: Shade) -> &'static str {
    match shade {
        Shade::Code => "code",
        Shade::Stack => "stack",
        Shade::Used => "used",
        Shade::Over => "over",
        Shade::Written => "written",
    }
}

/// The addresses of a strip, and its name.
#[derive(Clone, Copy)]
pub struct Strip {
    pub first: u16,
    pub last: u16,
    pub name: &'static str,
}

/// WRAM.
pub const WORK_RAM: Strip = Strip {
    first: 0xC000,
    last: 0xDFFF,
    name: "WRAM",
};

/// HRAM.
pub const HIGH_RAM: Strip = Strip {
    first: 0xFF80,
    last: 0xFFFE,
    name: "HRAM",
};

/// How many addresses there are from one to another.
pub fn length_of(first: u16, last: u16) -> u32 {
    u32::from(last)
        .saturating_sub(u32::from(first))
        .saturating_add(1)
}

/// The beginning of a strip.
pub fn fmt_begin<W: fmt::Write>(area: Strip, f: &mut fmt::Formatter<W>) -> fmt::Result {
    let width = length_of(area.first, area.last);
    let name = area.name;
    write!(
        f,
        "<svg class=\"strip\" viewBox=\"0 0 {width} 1\" preserveAspectRatio=\"none\" role=\"img\" aria-label=\"{name}\">"
    )
}

/// The end of a strip.
pub fn fmt_end<W: fmt::Write>(f: &mut fmt::Formatter<W>) -> fmt::Result {
    write!(f, "</svg>")
}

/// A mark, as far as it lies in the strip.
pub fn fmt_mark<W: fmt::Write>(
    area: Strip,
    shade: Shade,
    first: u16,
    last: u16,
    f: &mut fmt::Formatter<W>,
) -> fmt::Result {
    if last < area.first || area.last < first {
        return Ok(());
    }
    let class = class_of(shade);
    let from = first.max(area.first);
    let to = last.min(area.last);
    let place = from.saturating_sub(area.first);
    let width = length_of(from, to);
    write!(
        f,
        "<rect class=\"{class}\" x=\"{place}\" width=\"{width}\" height=\"1\"><title>${first:04X} to ${last:04X}</title></rect>"
    )
}

/// A legend's entry: a mark with a text.
pub fn fmt_key<W: fmt::Write>(shade: Shade, text: &str, f: &mut fmt::Formatter<W>) -> fmt::Result {
    let class = class_of(shade);
    write!(
        f,
        "<span class=\"key\"><svg viewBox=\"0 0 1 1\"><rect class=\"{class}\" width=\"1\" height=\"1\"/></svg> {text}</span> "
    )
}
