//! A line of text in a buffer of fixed size.

ghost use Rattle.std.specs.Prelude.{◌≡◌, ◌+◌, ◌<◌, ◌≤◌, [], ◌++◌, length, decimal};
ghost use Rattle.gb_text.specs.Text.{line_feed, hex_digit, hex_byte, hex_word};

use arrayvec::ArrayVec;
use itoa::Buffer;
use std::marker::Model;

/// A hexadecimal digit, upper case.
fn hex_digit(digit: u8) -> u8
    requires { digit < 16 }
    ensures { result ≡ hex_digit digit }
{
    if digit < 10 {
        b'0' + digit
    } else {
        b'A' - 10 + digit
    }
}

/// A line of at most 96 bytes. Contracts see its bytes.
#[derive(Drop)]
pub struct Line {
    bytes: ArrayVec<u8, 96>,
}

impl Model for Line {
    ghost use Rattle.std.specs.Prelude.{List, ℕ};

    ghost Value = { List ℕ };

    ghost view = { λ line. line.bytes.items };
}

impl Line {
    /// An empty line.
    pub fn new() -> Line
        ensures { result ≡ [] }
    {
        Line {
            bytes: ArrayVec::new(),
        }
    }

    /// Puts text at the end.
    pub fn push_text(&mut self, text: &[u8])
        requires { length self.old + length text.now ≤ 96 }
        ensures text { self.new ≡ self.old ++ text.now }
        ensures length { length self.new ≡ length self.old + length text.now }
    {
        if self.bytes.try_extend_from_slice(text).is_err() {
            unreachable!();
        }
    }

    /// Puts a number at the end, in decimal digits.
    pub fn push_number(&mut self, number: u64)
        requires { length self.old + 20 ≤ 96 }
        ensures text { self.new ≡ self.old ++ decimal number }
        ensures short { length self.new ≤ length self.old + 20 }
    {
        let mut buffer = Buffer::new();
        self.push_text(buffer.format(number).as_bytes());
    }

    /// Puts a byte at the end, in two hexadecimal digits of upper case.
    pub fn push_byte(&mut self, byte: u8)
        requires { length self.old + 2 ≤ 96 }
        ensures text { self.new ≡ self.old ++ hex_byte byte }
        ensures length { length self.new ≡ length self.old + 2 }
    {
        self.push_text(&[hex_digit(byte / 16), hex_digit(byte % 16)]);
    }

    /// Puts a word at the end, in four hexadecimal digits of upper case.
    pub fn push_word(&mut self, word: u16)
        requires { length self.old + 4 ≤ 96 }
        ensures text { self.new ≡ self.old ++ hex_word word }
        ensures length { length self.new ≡ length self.old + 4 }
    {
        self.push_byte((word / 256) as u8);
        self.push_byte((word % 256) as u8);
    }

    /// Ends the line.
    pub fn end(&mut self)
        requires { length self.old + 1 ≤ 96 }
        ensures text { self.new ≡ self.old ++ line_feed }
        ensures length { length self.new ≡ length self.old + 1 }
    {
        self.push_text(b"\n");
    }

    /// Its bytes.
    pub fn as_slice(&self) -> &[u8]
        ensures { result.now ≡ self.now }
    {
        self.bytes.as_slice()
    }
}
