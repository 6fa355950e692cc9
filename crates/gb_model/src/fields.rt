//! The words of a line as numbers; all are hexadecimal.

ghost use Rattle.std.specs.Prelude.{◌<◌, ◌≤◌, IfSome};

use std::str::SplitWhitespace;

/// The value of a hexadecimal digit.
fn digit(byte: u8) -> Option<u8>
    ensures { IfSome result (λ d. d < 16) }
{
    match byte {
        b'0'..=b'9' => Some(byte - b'0'),
        b'A'..=b'F' => Some(byte - b'A' + 10),
        b'a'..=b'f' => Some(byte - b'a' + 10),
        _ => None,
    }
}

/// The number of a word of up to 16 digits, where it is at most so much.
fn number_of(word: &[u8], greatest: u64) -> Option<u64>
    ensures { IfSome result (λ n. n ≤ greatest) }
{
    if word.is_empty() || word.len() > 16 {
        return None;
    }
    let mut value = 0u64;
    for byte in word {
        let next = u64::from(digit(*byte)?);
        value = value.wrapping_mul(16).wrapping_add(next);
    }
    if value <= greatest { Some(value) } else { None }
}

/// The byte of two digits.
pub fn byte_of(digits: &[u8]) -> Option<u8> {
    match digits {
        [high, low] => Some(16 * digit(*high)? + digit(*low)?),
        _ => None,
    }
}

/// The words of a line that are not read yet. A word that is missing, or that isn't what it is read as, makes the line
/// wrong and is read as zeros, so that whoever reads asks once, behind the last word.
#[derive(Drop)]
pub struct Fields<'a> {
    words: SplitWhitespace<'a>,
    is_wrong: bool,
}

impl<'a> Fields<'a> {
    pub fn new(line: &'a str) -> Fields<'a> {
        Fields {
            words: line.split_whitespace(),
            is_wrong: false,
        }
    }

    /// Makes the line wrong.
    pub fn refuse(&mut self) {
        self.is_wrong = true;
    }

    /// Whether a word so far makes the line wrong.
    pub fn is_wrong(&self) -> bool {
        self.is_wrong
    }

    /// Whether the line is right, with no word left.
    pub fn is_read(&mut self) -> bool {
        !self.is_wrong && self.words.next().is_none()
    }

    /// The next word, or none at the line's end.
    pub fn word(&mut self) -> Option<&'a str> {
        self.words.next()
    }

    /// The next word's digits; none where the line is wrong.
    pub fn digits(&mut self) -> &'a [u8] {
        match self.words.next() {
            Some(word) if !self.is_wrong => word.as_bytes(),
            _ => {
                self.is_wrong = true;
                &[]
            }
        }
    }

    /// The next word as a number, where it is at most so much.
    pub fn number(&mut self, greatest: u64) -> u64
        ensures { result ≤ greatest }
    {
        match number_of(self.digits(), greatest) {
            Some(number) => number,
            None => {
                self.is_wrong = true;
                0
            }
        }
    }

    /// The next word as a byte.
    pub fn byte(&mut self) -> u8 {
        self.number(0xFF) as u8
    }

    /// The next word as an address.
    pub fn address(&mut self) -> u16 {
        self.number(0xFFFF) as u16
    }

    /// The next word as 0 or 1.
    pub fn flag(&mut self) -> bool {
        self.number(1) == 1
    }

    /// The next word as exactly so many bytes, two digits each.
    pub fn bytes<const N: usize>(&mut self) -> [u8; N] {
        let mut bytes = [0u8; N];
        let digits = self.digits();
        if digits.len() / 2 != N || digits.len() % 2 != 0 {
            self.is_wrong = true;
        }
        for (byte, digits) in bytes.iter_mut().zip(digits.chunks(2)) {
            match byte_of(digits) {
                Some(value) => *byte = value,
                None => self.is_wrong = true,
            }
        }
        bytes
    }
}
