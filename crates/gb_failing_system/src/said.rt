//! What the program has to write.

/// A line of the screen: 80 digits and the end of the line.
const LINE: usize = 81;

/// The screen's lines.
const SCREEN: usize = 144 * LINE;

/// The bytes that are to be written.
#[derive(Clone, Copy)]
pub enum OutputBytes<'a> {
    /// These.
    Bytes(&'a [u8]),
    /// A screen of the lightest shade, and behind it these.
    Screen(&'a [u8]),
}

impl OutputBytes<'_> {
    /// How many they are.
    pub fn len(&self) -> usize {
        match *self {
            OutputBytes::Bytes(bytes) => bytes.len(),
            OutputBytes::Screen(ending) => ending.len().saturating_add(SCREEN),
        }
    }

    /// One of them.
    pub fn byte(&self, at: usize) -> Option<u8> {
        match *self {
            OutputBytes::Bytes(bytes) => bytes.get(at).copied(),
            OutputBytes::Screen(ending) => match at.checked_sub(SCREEN) {
                Some(behind) => ending.get(behind).copied(),
                None if at % LINE == 80 => Some(b'\n'),
                None => Some(b'0'),
            },
        }
    }
}
