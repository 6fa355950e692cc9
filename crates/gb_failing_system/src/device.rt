//! Files and devices that end early, fail, give a byte at a time, or have no end.

use crate::disk::Disk;
use std::fs::{Metadata, OpenFile};
use std::io::{self, BufRead, ErrorKind, Read, Seek, SeekFrom, Write};

/// How many bytes one read gives.
#[derive(Clone, Copy, PartialEq, Eq)]
pub enum Pace {
    /// As many as there is room for.
    Whole,
    /// One.
    Slow,
    /// As many as there is room for, but a signal interrupts every other read.
    Interrupted,
}

/// What comes behind a device's bytes.
#[derive(Clone, Copy, PartialEq, Eq)]
pub enum StreamEnding {
    /// Nothing.
    End,
    /// A fault at each further read.
    Failing(ErrorKind),
    /// Zeros without an end.
    Zeros,
}

/// What stands behind a name, once it is opened.
#[derive(Clone, Copy)]
pub struct Device<'a> {
    pub bytes: &'a [u8],
    pub pace: Pace,
    pub ending: StreamEnding,
}

/// A device that is read, or a file that is written.
#[derive(Drop)]
pub struct Opened<'a> {
    /// Where it is written, if it is.
    disk: Option<&'a Disk>,
    rest: &'a [u8],
    pace: Pace,
    ending: StreamEnding,
    is_interrupted: bool,
}

impl<'a> Opened<'a> {
    /// Reads from the device's first byte on.
    pub fn new(device: Device<'a>) -> Opened<'a> {
        Opened {
            disk: None,
            rest: device.bytes,
            pace: device.pace,
            ending: device.ending,
            is_interrupted: false,
        }
    }

    /// Writes a file on a disk.
    pub fn on(disk: &'a Disk) -> Opened<'a> {
        Opened {
            disk: Some(disk),
            rest: &[],
            pace: Pace::Whole,
            ending: StreamEnding::End,
            is_interrupted: false,
        }
    }
}

/// That nothing but reading and writing is done with a device.
fn unsupported<T>() -> io::Result<T> {
    Err(io::Error::from(ErrorKind::Unsupported))
}

impl Read for Opened<'_> {
    fn read(&mut self, buf: &mut [u8]) -> io::Result<usize> {
        if self.pace == Pace::Interrupted {
            self.is_interrupted = !self.is_interrupted;
            if self.is_interrupted {
                return Err(io::Error::from(ErrorKind::Interrupted));
            }
        }
        let at_once = if self.pace == Pace::Slow {
            1
        } else {
            usize::MAX
        };
        let count = self.rest.len().min(buf.len()).min(at_once);
        if count > 0 {
            buf[..count].copy_from_slice(&self.rest[..count]);
            self.rest = &self.rest[count..];
            return Ok(count);
        }
        match self.ending {
            StreamEnding::End => Ok(0),
            StreamEnding::Failing(kind) => Err(io::Error::from(kind)),
            StreamEnding::Zeros => {
                buf.fill(0);
                Ok(buf.len())
            }
        }
    }
}

impl BufRead for Opened<'_> {
    fn fill_buf(&mut self) -> io::Result<&[u8]> {
        unsupported()
    }

    fn consume(&mut self, _amount: usize) {}
}

impl Write for Opened<'_> {
    fn write(&mut self, buf: &[u8]) -> io::Result<usize> {
        let Some(disk) = self.disk else {
            return Err(io::Error::from(ErrorKind::Unsupported));
        };
        let count = disk.take(buf);
        if count == 0 && !buf.is_empty() {
            return Err(io::Error::from(ErrorKind::StorageFull));
        }
        Ok(count)
    }

    fn flush(&mut self) -> io::Result<()> {
        Ok(())
    }
}

impl Seek for Opened<'_> {
    fn seek(&mut self, _to: SeekFrom) -> io::Result<u64> {
        unsupported()
    }
}

impl OpenFile for Opened<'_> {
    fn metadata(&self) -> io::Result<Metadata> {
        unsupported()
    }

    fn set_len(&self, _size: u64) -> io::Result<()> {
        unsupported()
    }

    fn sync_all(&self) -> io::Result<()> {
        unsupported()
    }

    fn sync_data(&self) -> io::Result<()> {
        unsupported()
    }
}
