//! The files that a program writes on a stage, each under another name first: a page, and the keys of a crash.

ghost use Rattle.std.specs.Prelude.{◌≤◌, length};

use crate::rows::WrittenFiles;
use std::cell::Cell;
use std::io::{self, ErrorKind};

/// The page's name, and its name until it is whole.
const PAGE: [&str; 2] = ["page.html", "page.html.part"];

/// The same of the file of a crash's keys.
const CRASH_KEYS: [&str; 2] = ["game.crash.keys", "game.crash.keys.part"];

/// What may not stand on a page: it runs no script, and no name of a symbol begins one.
const FORBIDDEN: &[u8] = b"<script";

/// A file, and what is there of it.
#[derive(Drop)]
struct DiskFile {
    name: &'static str,
    part: &'static str,
    has_part: Cell<bool>,
    is_whole: Cell<bool>,
}

impl DiskFile {
    /// A file that isn't there.
    fn new(names: [&'static str; 2]) -> DiskFile {
        let [name, part] = names;
        DiskFile {
            name,
            part,
            has_part: Cell::new(false),
            is_whole: Cell::new(false),
        }
    }

    /// Whether a file of this name may be written; it is there from then on.
    fn opens(&self, path: &str) -> bool {
        if path == self.part {
            self.has_part.set(true);
        }
        path == self.part
    }

    /// Gets its name; whether it could.
    fn rename(&self, from: &str, to: &str) -> bool {
        let is_there = from == self.part && to == self.name && self.has_part.get();
        if is_there {
            self.has_part.set(false);
            self.is_whole.set(true);
        }
        is_there
    }

    /// Is removed; whether there was such a name.
    fn remove(&self, path: &str) -> bool {
        if path == self.part {
            self.has_part.set(false);
        }
        if path == self.name {
            self.is_whole.set(false);
        }
        path == self.part || path == self.name
    }
}

/// A disk with room for so many bytes, on which nothing has another name than these files.
#[derive(Drop)]
pub struct Disk {
    room: usize,
    /// Whether a file may be given another name.
    can_rename: bool,
    /// The bytes that were written.
    taken: Cell<usize>,
    /// How many bytes of what is forbidden the last ones are.
    matched: Cell<usize>,
    is_clean: Cell<bool>,
    page: DiskFile,
    crash_keys: DiskFile,
}

impl Disk {
    /// A disk without a file.
    pub fn new(room: usize, can_rename: bool) -> Disk {
        Disk {
            room,
            can_rename,
            taken: Cell::new(0),
            matched: Cell::new(0),
            is_clean: Cell::new(true),
            page: DiskFile::new(PAGE),
            crash_keys: DiskFile::new(CRASH_KEYS),
        }
    }

    /// How many bytes were written.
    pub fn taken(&self) -> usize {
        self.taken.get()
    }

    /// Whether no file is there that isn't whole.
    fn has_no_part(&self) -> bool {
        !self.page.has_part.get() && !self.crash_keys.has_part.get()
    }

    /// Whether these files are there, and no other one.
    fn has_all(&self, files: WrittenFiles) -> bool {
        let has_page = self.page.is_whole.get() == (files != WrittenFiles::CrashKeys);
        has_page && self.crash_keys.is_whole.get() == (files != WrittenFiles::Page)
    }

    /// Whether these files are there whole and clean, and no other one.
    pub fn has_whole(&self, files: WrittenFiles) -> bool {
        self.has_all(files) && self.is_clean.get() && self.has_no_part()
    }

    /// Whether one of these files isn't there, and nothing of it is.
    pub fn lacks_one(&self, files: WrittenFiles) -> bool {
        !self.has_all(files) && self.has_no_part()
    }

    /// Whether a file of this name may be written; it is there from then on.
    pub fn opens(&self, path: &str) -> bool {
        self.page.opens(path) || self.crash_keys.opens(path)
    }

    /// Looks at a byte that is written.
    fn look(&self, byte: u8) {
        let matched = self.matched.get();
        let matched = match FORBIDDEN.get(matched) {
            Some(wanted) if *wanted == byte => matched.saturating_add(1),
            _ => usize::from(byte == b'<'),
        };
        if matched == FORBIDDEN.len() {
            self.is_clean.set(false);
        }
        self.matched.set(matched);
    }

    /// Writes as many of these bytes as there is room for.
    pub fn take(&self, bytes: &[u8]) -> usize
        ensures { result ≤ length bytes.now }
    {
        let taken = self.taken.get();
        let count = bytes.len().min(self.room.saturating_sub(taken));
        for byte in &bytes[..count] {
            self.look(*byte);
        }
        self.taken.set(taken.saturating_add(count));
        count
    }

    /// Gives a file another name.
    pub fn rename(&self, from: &str, to: &str) -> io::Result<()> {
        if self.can_rename && (self.page.rename(from, to) || self.crash_keys.rename(from, to)) {
            Ok(())
        } else {
            Err(io::Error::from(ErrorKind::PermissionDenied))
        }
    }

    /// Removes a file.
    pub fn remove(&self, path: &str) -> io::Result<()> {
        if self.page.remove(path) || self.crash_keys.remove(path) {
            Ok(())
        } else {
            Err(io::Error::from(ErrorKind::NotFound))
        }
    }
}
