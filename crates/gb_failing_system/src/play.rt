//! Plays a program on a stage.

use crate::device::{Device, Pace, StreamEnding};
use crate::disk::Disk;
use crate::rows::{
    Content, ExpectedOutput, ExpectedPage, FilePlace, Given, Scenario, Tool, WrittenFiles,
};
use crate::said::OutputBytes;
use crate::stage::{Entry, Names, Stage};
use crate::unordered::{ORDERED, UNORDERED};
use std::alloc::Global;
use std::io::ErrorKind;
use std::process::ExitCode;

/// The files' bytes.
#[derive(Drop)]
pub struct Contents<'a> {
    pub cartridge: &'a [u8],
    /// The cartridge with an undefined opcode.
    pub undefined: &'a [u8],
    /// The cartridge with a STOP.
    pub stopping: &'a [u8],
    /// The cartridge with a stack below 8000.
    pub rom_stack: &'a [u8],
    /// The cartridge with an undefined opcode and the Color flag.
    pub colored: &'a [u8],
    /// The certificate, with a byte left over.
    pub longer: &'a [u8],
    /// The certificate in version 2.
    pub upgraded: &'a [u8],
    /// Symbols with markup in their names.
    pub markup: &'a [u8],
}

/// How often a program was played, and how often it did otherwise than it has to.
#[derive(Clone, Copy, PartialEq, Eq)]
pub struct Plays {
    pub played: usize,
    pub wrong: usize,
}

impl Plays {
    /// None yet.
    pub fn new() -> Plays {
        Plays {
            played: 0,
            wrong: 0,
        }
    }

    /// Counts one.
    fn count(&mut self, is_right: bool) {
        self.played = self.played.wrapping_add(1);
        self.wrong = self.wrong.wrapping_add(usize::from(!is_right));
    }
}

impl<'a> Contents<'a> {
    /// A file's bytes.
    fn of(&self, content: Content) -> &'a [u8] {
        match content {
            Content::Empty => &[],
            Content::Cartridge => self.cartridge,
            Content::Undefined => self.undefined,
            Content::Stopping => self.stopping,
            Content::RomStack => self.rom_stack,
            Content::Colored => self.colored,
            Content::Certificate => &self.longer[..self.longer.len().saturating_sub(1)],
            Content::Longer => self.longer,
            Content::Fourth => b"GBBX\x04",
            Content::Unordered => UNORDERED,
            Content::Ordered => ORDERED,
            Content::Markup => self.markup,
            Content::Garbage => &[0xFF, 0xFE, 0x00, 0x80],
            Content::Events => b"# four instructions\nrun x4\n",
            Content::WrongEvents => b"run x2\nirq 9\n",
        }
    }

    /// What a device gives.
    fn device(&self, given: Given) -> Option<Device<'a>> {
        let Given::Read(content, length, pace, ending) = given else {
            return None;
        };
        let bytes = self.of(content);
        Some(Device {
            bytes: &bytes[..length.min(bytes.len())],
            pace,
            ending,
        })
    }

    /// What becomes of a name.
    fn entry(&self, given: Given) -> Entry<'a> {
        match (given, self.device(given)) {
            (_, Some(device)) => Entry::Opened(device),
            (Given::Refused(kind), None) => Entry::Refused(kind),
            (Given::Read(..), None) => Entry::Refused(ErrorKind::Other),
        }
    }

    /// What is to be written.
    fn said(&self, written: ExpectedOutput) -> OutputBytes<'a> {
        match written {
            ExpectedOutput::Text(text) => OutputBytes::Bytes(text.as_bytes()),
            ExpectedOutput::Screen(ending) => OutputBytes::Screen(ending.as_bytes()),
            ExpectedOutput::Upgraded => OutputBytes::Bytes(self.upgraded),
            ExpectedOutput::Ordered => OutputBytes::Bytes(ORDERED),
        }
    }

    /// The stage of an example.
    fn stage(&self, alloc: Global, row: &Scenario, told: &'a str) -> Stage<'a> {
        let names = Names {
            game: self.entry(row.game),
            cert: self.entry(row.cert),
            keys: self.entry(row.keys),
            input: self.device(row.input).unwrap_or(Device {
                bytes: &[],
                pace: Pace::Whole,
                ending: StreamEnding::End,
            }),
            disk: None,
        };
        let stage = Stage::new(alloc, row.words, names, self.said(row.written), told);
        if row.has_clock {
            stage.with_clock()
        } else {
            stage
        }
    }
}

/// Whether a program ends with this status on a stage, and does there what it has to.
fn is_right(row: &Scenario, stage: &Stage<'_>, status: u8) -> bool {
    let ended = match row.tool {
        Tool::Gulmyrek => gb_program::run(stage, row.is_shown),
        Tool::Certify => gb_certify::run(stage, row.is_shown),
    };
    ended == ExitCode::from(status) && stage.is_as_wanted()
}

/// Plays an example as it is, and with a standard error that takes nothing.
fn play_whole(alloc: Global, contents: &Contents<'_>, row: &Scenario, plays: &mut Plays) {
    let stage = contents.stage(alloc, row, row.told);
    plays.count(is_right(row, &stage, row.status));
    let silent = contents.stage(alloc, row, row.told).in_silence();
    plays.count(is_right(row, &silent, row.status));
}

/// Plays an example with an output that takes fewer bytes than there are: each number of them, or of a screen a few.
fn play_short(alloc: Global, contents: &Contents<'_>, row: &Scenario, plays: &mut Plays) {
    let length = contents.said(row.written).len();
    let step = if length < 1_000 { 1 } else { 389 };
    let told = if row.status == 3 {
        row.told
    } else {
        "standard output"
    };
    for room in (0..length).step_by(step) {
        let stage = contents.stage(alloc, row, told).with_room(room);
        plays.count(is_right(row, &stage, 3));
    }
}

/// Plays an example in each of these ways.
pub fn play(alloc: Global, contents: &Contents<'_>, row: &Scenario) -> Plays {
    let mut plays = Plays::new();
    play_whole(alloc, contents, row, &mut plays);
    play_short(alloc, contents, row, &mut plays);
    plays
}

/// What is given of a place that ends behind so many bytes.
fn shortened(given: Given, length: usize) -> Given {
    match given {
        Given::Read(content, _, pace, ending) => Given::Read(content, length, pace, ending),
        Given::Refused(kind) => Given::Refused(kind),
    }
}

/// An example whose place fails behind so many bytes.
fn cut_off(row: &Scenario, place: FilePlace, length: usize) -> Scenario {
    let mut row = *row;
    match place {
        FilePlace::Game => row.game = shortened(row.game, length),
        FilePlace::Cert => row.cert = shortened(row.cert, length),
        FilePlace::Keys => row.keys = shortened(row.keys, length),
        FilePlace::Input => row.input = shortened(row.input, length),
    }
    row
}

/// Plays an example with a place cut off behind 0 bytes, `step`, and so on up to `most`.
pub fn play_cuts(
    alloc: Global,
    contents: &Contents<'_>,
    row: &Scenario,
    place: FilePlace,
    lengths: (usize, usize),
) -> Plays {
    let mut plays = Plays::new();
    let (most, step) = lengths;
    for length in (0..=most).step_by(step.max(1)) {
        play_whole(alloc, contents, &cut_off(row, place, length), &mut plays);
    }
    plays
}

/// How files are written, and whether they have to be there afterwards.
#[derive(Clone, Copy)]
struct Writing {
    files: WrittenFiles,
    room: usize,
    can_rename: bool,
    is_whole: bool,
}

/// Plays an example that writes files, and counts whether they are there whole, or nothing of one is. The answer is how many
/// bytes were written.
fn play_writing(
    alloc: Global,
    contents: &Contents<'_>,
    row: &Scenario,
    writing: Writing,
    plays: &mut Plays,
) -> usize {
    let disk = Disk::new(writing.room, writing.can_rename);
    let stage = contents.stage(alloc, row, row.told).with_disk(&disk);
    let is_as_told = is_right(row, &stage, row.status);
    let is_as_wanted = if writing.is_whole {
        disk.has_whole(writing.files)
    } else {
        disk.lacks_one(writing.files)
    };
    plays.count(is_as_told && is_as_wanted);
    disk.taken()
}

/// How many parts the bytes have that end before a place at which they break off.
const PARTS: usize = 16;

/// Plays an example that writes files: as it is; where none can get its name; and where they break off behind each sixteenth of
/// their bytes, and before the last.
pub fn play_page(alloc: Global, contents: &Contents<'_>, page: &ExpectedPage) -> Plays {
    let mut plays = Plays::new();
    let whole = Writing {
        files: page.files,
        room: usize::MAX,
        can_rename: true,
        is_whole: true,
    };
    let length = play_writing(alloc, contents, &page.whole, whole, &mut plays);
    let nameless = Writing {
        can_rename: false,
        is_whole: false,
        ..whole
    };
    play_writing(alloc, contents, &page.broken, nameless, &mut plays);
    let last = length.saturating_sub(1);
    for part in 0..=PARTS {
        let room = last.min((length / PARTS).saturating_mul(part));
        let broken = Writing {
            room,
            is_whole: false,
            ..whole
        };
        play_writing(alloc, contents, &page.broken, broken, &mut plays);
    }
    plays
}
