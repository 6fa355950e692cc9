//! A picture of the console's screen, drawn by rows.

use std::fmt;

/// A screen's shades, 0 the lightest, line by line.
pub type Screen = [[u8; 160]; 144];

/// The shades that are drawn; the lightest one is the background.
const SHADES: &[u8] = &[1, 2, 3];

/// Pixels one after another.
fn fmt_run<W: fmt::Write>(
    x: usize,
    y: usize,
    length: usize,
    f: &mut fmt::Formatter<W>,
) -> fmt::Result {
    if length == 0 {
        return Ok(());
    }
    write!(f, "M{x} {y}h{length}v1h-{length}z")
}

/// The pixels of a line that have a shade.
fn fmt_line<W: fmt::Write>(
    line: &[u8],
    y: usize,
    shade: u8,
    f: &mut fmt::Formatter<W>,
) -> fmt::Result {
    let mut first = 0usize;
    let mut length = 0usize;
    for (x, found) in line.iter().enumerate() {
        if *found == shade {
            if length == 0 {
                first = x;
            }
            length = length.saturating_add(1);
        } else {
            fmt_run(first, y, length, f)?;
            length = 0;
        }
    }
    fmt_run(first, y, length, f)
}

/// All pixels that have a shade.
fn fmt_shade<W: fmt::Write>(screen: &Screen, shade: u8, f: &mut fmt::Formatter<W>) -> fmt::Result {
    write!(f, "<path class=\"shade{shade}\" d=\"")?;
    for (y, line) in screen.iter().enumerate() {
        fmt_line(line.as_slice(), y, shade, f)?;
    }
    write!(f, "\"/>")
}

/// A picture of a screen, with these words for who can't see it.
pub(crate) fn fmt_picture<W: fmt::Write>(
    screen: &Screen,
    words: &str,
    f: &mut fmt::Formatter<W>,
) -> fmt::Result {
    write!(
        f,
        "<svg class=\"screen\" viewBox=\"0 0 160 144\" shape-rendering=\"crispEdges\" role=\"img\" aria-label=\"{words}\">"
    )?;
    for shade in SHADES {
        fmt_shade(screen, *shade, f)?;
    }
    write!(f, "</svg>")
}

/// The screen's part.
pub(crate) fn fmt_screen<W: fmt::Write>(screen: &Screen, f: &mut fmt::Formatter<W>) -> fmt::Result {
    write!(
        f,
        "<section id=\"screen\"><h2>The screen</h2>\n<p>120 frames after power-up, with no key pressed.</p>\n"
    )?;
    fmt_picture(screen, "the screen after 120 frames", f)?;
    write!(f, "</section>\n")
}
