//! What the program meets in place of the system: given words, files and input, and an output that takes so many bytes.

ghost use Rattle.std.specs.Prelude.{◌≤◌, length};

use crate::device::{Device, Opened};
use crate::disk::Disk;
use crate::said::OutputBytes;
use std::alloc::{Allocator, Global};
use std::cell::Cell;
use std::env::FillError;
use std::fmt::Display;
use std::fs::{Metadata, OpenOptions};
use std::io::{self, BufRead, ErrorKind, Input, Lines};
use std::rt::{Clock, Env, Files};
use std::time::Duration;

/// What becomes of a name that is opened.
#[derive(Clone, Copy)]
pub enum Entry<'a> {
    /// It is refused.
    Refused(ErrorKind),
    /// It can be read, as far as the device goes.
    Opened(Device<'a>),
}

/// The cartridge's name.
pub const GAME: &str = "game.gb";

/// The certificate's name.
pub const CERT: &str = "game.cert";

/// The milliseconds from one question for the time to the next.
const TICK: u64 = 250;

/// The script's name.
pub const KEYS: &str = "game.keys";

/// The names that there are. Any other is missing.
#[derive(Clone, Copy)]
pub struct Names<'a> {
    pub game: Entry<'a>,
    pub cert: Entry<'a>,
    pub keys: Entry<'a>,
    pub input: Device<'a>,
    /// Where files are written, if they may be.
    pub disk: Option<&'a Disk>,
}

/// The system that the program meets.
#[derive(Drop)]
pub struct Stage<'a> {
    alloc: Global,
    words: &'a [&'a [u8]],
    names: Names<'a>,
    /// What is to be written.
    said: OutputBytes<'a>,
    /// The bytes that standard output takes in all.
    room: usize,
    /// The bytes that it took.
    taken: Cell<usize>,
    /// Whether each of them was as it is to be.
    is_as_said: Cell<bool>,
    /// The times that the clock was asked, where there is one.
    ticks: Option<Cell<u32>>,
    /// Whether standard error can be written to.
    can_tell: bool,
    /// What standard error is to tell.
    told: &'a str,
    /// Whether it told that.
    is_told: Cell<bool>,
}

impl<'a> Stage<'a> {
    /// A stage on which nothing was done yet.
    pub fn new(
        alloc: Global,
        words: &'a [&'a [u8]],
        names: Names<'a>,
        said: OutputBytes<'a>,
        told: &'a str,
    ) -> Stage<'a> {
        Stage {
            alloc,
            words,
            names,
            said,
            room: usize::MAX,
            taken: Cell::new(0),
            is_as_said: Cell::new(true),
            ticks: None,
            can_tell: true,
            told,
            is_told: Cell::new(false),
        }
    }

    /// This stage, with an output that takes so many bytes.
    pub fn with_room(mut self, room: usize) -> Stage<'a> {
        self.room = room;
        self
    }

    /// This stage, with a disk on which files can be written.
    pub fn with_disk(mut self, disk: &'a Disk) -> Stage<'a> {
        self.names = Names {
            disk: Some(disk),
            ..self.names
        };
        self
    }

    /// This stage, with a clock.
    pub fn with_clock(mut self) -> Stage<'a> {
        self.ticks = Some(Cell::new(0));
        self
    }

    /// This stage, with a standard error that takes nothing.
    pub fn in_silence(mut self) -> Stage<'a> {
        self.can_tell = false;
        self
    }

    /// Whether the output took the first bytes of what is to be written, as many as it takes or there are, and standard
    /// error told what it is to tell, where it could.
    pub fn is_as_wanted(&self) -> bool {
        let least = self.room.min(self.said.len());
        let is_told = self.told.is_empty() || self.is_told.get() == self.can_tell;
        self.is_as_said.get() && self.taken.get() == least && is_told
    }

    /// What becomes of a name that is opened to be read.
    fn entry(&self, path: &str) -> Entry<'a> {
        match path {
            GAME => self.names.game,
            CERT => self.names.cert,
            KEYS => self.names.keys,
            _ => Entry::Refused(ErrorKind::NotFound),
        }
    }

    /// Takes as many of these bytes as there is room for.
    fn take(&self, bytes: &[u8]) -> usize
        ensures { result ≤ length bytes.now }
    {
        let mut at = self.taken.get();
        let count = bytes.len().min(self.room.saturating_sub(at));
        for byte in &bytes[..count] {
            if self.said.byte(at) != Some(*byte) {
                self.is_as_said.set(false);
            }
            at = at.wrapping_add(1);
        }
        self.taken.set(at);
        count
    }

    /// Hears what is told.
    fn hear(&self, text: &str) -> io::Result<()> {
        if !self.can_tell {
            return Err(io::Error::from(ErrorKind::BrokenPipe));
        }
        if !self.told.is_empty() && text.contains(self.told) {
            self.is_told.set(true);
        }
        Ok(())
    }
}

impl Print for Stage<'_> {
    fn print<D: Display + Drop>(&self, value: D) -> io::Result<()> {
        let text = format!(in self.alloc; "{value}")?;
        self.write_all(text.as_str().as_bytes())
    }

    fn println<D: Display + Drop>(&self, value: D) -> io::Result<()> {
        let text = format!(in self.alloc; "{value}\n")?;
        self.write_all(text.as_str().as_bytes())
    }

    fn write_all(&self, bytes: &[u8]) -> io::Result<()> {
        if self.take(bytes) < bytes.len() {
            return Err(io::Error::from(ErrorKind::StorageFull));
        }
        Ok(())
    }

    fn write_some(&self, bytes: &[u8]) -> io::Result<usize> {
        let count = self.take(bytes);
        if count == 0 && !bytes.is_empty() {
            return Err(io::Error::from(ErrorKind::StorageFull));
        }
        Ok(count)
    }
}

impl Eprint for Stage<'_> {
    fn eprint<D: Display + Drop>(&self, value: D) -> io::Result<()> {
        let text = format!(in self.alloc; "{value}")?;
        self.hear(text.as_str())
    }

    fn eprintln<D: Display + Drop>(&self, value: D) -> io::Result<()> {
        let text = format!(in self.alloc; "{value}")?;
        self.hear(text.as_str())
    }
}

impl<'a> Input for Stage<'a> {
    type Reader = Opened<'a>;

    fn read_line<A: Allocator + Clone>(&self, _buf: &mut String<A>) -> io::Result<usize> {
        Err(io::Error::from(ErrorKind::Unsupported))
    }

    fn lines<A: Allocator>(&self, alloc: A) -> Lines<Opened<'a>, A> {
        self.reader().lines(alloc)
    }

    fn reader(&self) -> Opened<'a> {
        Opened::new(self.names.input)
    }
}

impl Env for Stage<'_> {
    fn arg(&self, i: usize, buf: &mut [u8]) -> Result<usize, FillError> {
        let Some(word) = self.words.get(i) else {
            return Err(FillError::NotPresent);
        };
        if word.len() > buf.len() {
            return Err(FillError::TooLong);
        }
        buf[..word.len()].copy_from_slice(word);
        Ok(word.len())
    }

    fn var(&self, _name: &str, _buf: &mut [u8]) -> Result<usize, FillError> {
        Err(FillError::NotPresent)
    }

    fn var_at(&self, _i: usize, _buf: &mut [u8]) -> Result<usize, FillError> {
        Err(FillError::NotPresent)
    }
}

impl Alloc for Stage<'_> {
    type A = Global;

    fn alloc(&self) -> Global {
        self.alloc
    }
}

/// Where there is a clock, a quarter of a second passes from one question to the next; else what asks goes on without.
impl Clock for Stage<'_> {
    fn monotonic(&self) -> io::Result<Duration> {
        let Some(ticks) = &self.ticks else {
            return unsupported();
        };
        let passed = ticks.get();
        ticks.set(passed.saturating_add(1));
        Ok(Duration::from_millis(u64::from(passed).saturating_mul(TICK)))
    }

    fn since_1970(&self) -> io::Result<Duration> {
        unsupported()
    }
}

/// That the program asks for nothing but files to read, and what the disk takes.
fn unsupported<T>() -> io::Result<T> {
    Err(io::Error::from(ErrorKind::Unsupported))
}

impl<'a> Files for Stage<'a> {
    type File = Opened<'a>;

    type Dir = Opened<'a>;

    fn open_file(&self, _how: &OpenOptions, path: &str) -> io::Result<Opened<'a>> {
        if let Some(disk) = self.names.disk {
            if disk.opens(path) {
                return Ok(Opened::on(disk));
            }
        }
        match self.entry(path) {
            Entry::Refused(kind) => Err(io::Error::from(kind)),
            Entry::Opened(device) => Ok(Opened::new(device)),
        }
    }

    fn open_dir(&self, _path: &str) -> io::Result<Opened<'a>> {
        unsupported()
    }

    fn metadata(&self, path: &str) -> io::Result<Metadata> {
        match self.entry(path) {
            Entry::Refused(kind) => Err(io::Error::from(kind)),
            Entry::Opened(_) => unsupported(),
        }
    }

    fn symlink_metadata(&self, _path: &str) -> io::Result<Metadata> {
        unsupported()
    }

    fn copy(&self, _from: &str, _to: &str) -> io::Result<u64> {
        unsupported()
    }

    fn rename(&self, from: &str, to: &str) -> io::Result<()> {
        match self.names.disk {
            Some(disk) => disk.rename(from, to),
            None => unsupported(),
        }
    }

    fn remove_file(&self, path: &str) -> io::Result<()> {
        match self.names.disk {
            Some(disk) => disk.remove(path),
            None => unsupported(),
        }
    }

    fn create_dir(&self, _path: &str) -> io::Result<()> {
        unsupported()
    }

    fn remove_dir(&self, _path: &str) -> io::Result<()> {
        unsupported()
    }

    fn remove_dir_all<B: Allocator>(&self, _alloc: B, _path: &str) -> io::Result<()> {
        unsupported()
    }
}
