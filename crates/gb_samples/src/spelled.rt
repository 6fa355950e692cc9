//! Examples as lines of text: a word, and bytes and numbers in hexadecimal.

use crate::cartridges::{SMALLEST, file, put};
use std::alloc::Global;
use std::io;

/// A line's first word, and what stands behind it.
pub fn word_of(line: &str) -> (&str, &str) {
    line.split_once(' ').unwrap_or((line, ""))
}

/// The number of hexadecimal digits; 0 where they spell none.
pub fn number_of(digits: &str) -> usize {
    usize::from_str_radix(digits, 16).unwrap_or(0)
}

/// The bytes of hexadecimal digits; none where they spell none.
pub fn bytes_of(alloc: Global, digits: &str) -> Vec<u8> {
    hex::decode(alloc, digits).unwrap_or(Vec::new(alloc))
}

/// A cartridge with these bytes at 0147 to 0149, as long as they say; none where they aren't three.
pub fn cartridge_of(alloc: Global, digits: &str) -> io::Result<Vec<u8>> {
    let bytes = bytes_of(alloc, digits);
    let [kind, size, ram] = bytes.as_slice() else {
        return Ok(Vec::new(alloc));
    };
    Ok(file(alloc, SMALLEST << (*size % 9), [*kind, *size, *ram], &[])?)
}

/// Puts bytes at an offset of a cartridge, which stands before them.
pub fn place(alloc: Global, rom: &mut [u8], rest: &str) {
    let (offset, digits) = word_of(rest);
    let piece = bytes_of(alloc, digits);
    put(rom, number_of(offset), piece.as_slice());
}

/// The bytes of a cartridge and a certificate.
#[derive(Drop)]
pub struct Example {
    pub rom: Vec<u8>,
    pub cert: Vec<u8>,
}

impl Example {
    /// An example without bytes.
    pub fn new(alloc: Global) -> Example {
        Example {
            rom: Vec::new(alloc),
            cert: Vec::new(alloc),
        }
    }

    /// Takes a line: `sizes` with the bytes 0147 to 0149, `rom` with an offset and bytes that lie there, `cert` with bytes that
    /// follow one another. Any other means nothing here.
    pub fn take(&mut self, alloc: Global, word: &str, rest: &str) -> io::Result<()> {
        match word {
            "sizes" => self.rom = cartridge_of(alloc, rest)?,
            "rom" => place(alloc, self.rom.as_mut_slice(), rest),
            "cert" => self
                .cert
                .extend_from_slice(bytes_of(alloc, rest).as_slice())?,
            _ => {}
        }
        Ok(())
    }
}
