//! Text as HTML writes it.

use std::fmt;

/// A text that comes from outside. What HTML would read as its own is spelled out, and control characters are left out.
#[derive(Clone, Copy)]
pub struct Escaped<'a>(pub &'a str);

/// How a character is spelled, if it isn't spelled as it is.
fn spelled(character: char) -> Option<&'static str> {
    match character {
        '&' => Some("&amp;"),
        '<' => Some("&lt;"),
        '>' => Some("&gt;"),
        '"' => Some("&quot;"),
        '\'' => Some("&#39;"),
        '\n' => Some("\n"),
        '\0'..='\x1F' | '\x7F' => Some("\u{FFFD}"),
        _ => None,
    }
}

/// A character.
fn fmt_character<W: fmt::Write>(character: char, f: &mut fmt::Formatter<W>) -> fmt::Result {
    match spelled(character) {
        Some(text) => write!(f, "{text}"),
        None => write!(f, "{character}"),
    }
}

impl fmt::Display for Escaped<'_> {
    fn fmt<W: fmt::Write>(&self, f: &mut fmt::Formatter<W>) -> fmt::Result {
        let text = self.0;
        for character in text.chars() {
            fmt_character(character, f)?;
        }
        Ok(())
    }
}
