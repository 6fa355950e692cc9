//! Readers and writers that end, or fail in mid-stream.

use std::io::{self, Read, Write};

/// Takes bytes one at a time, so many in all, and fails at the next.
#[derive(Drop)]
pub struct FailingWriter {
    left: u8,
}

impl FailingWriter {
    /// It takes so many bytes.
    pub fn new(left: u8) -> FailingWriter {
        FailingWriter { left }
    }
}

impl Write for FailingWriter {
    fn write(&mut self, buf: &[u8]) -> io::Result<usize> {
        if self.left == 0 {
            return Err(io::Error::from(io::ErrorKind::Other));
        }
        if buf.is_empty() {
            return Ok(0);
        }
        self.left -= 1;
        Ok(1)
    }

    fn flush(&mut self) -> io::Result<()> {
        Ok(())
    }
}
