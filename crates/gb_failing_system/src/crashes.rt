//! The examples of hunts for a crash, where no certificate is made.

use crate::device::{Pace, StreamEnding};
use crate::rows::{
    ALL, CERTIFY, Content, DEVICE, ExpectedOutput, ExpectedPage, Given, MISSING, NOTHING, PAGE,
    Scenario, UNDEFINED, WrittenFiles,
};

const STOPPING: Given = Given::Read(Content::Stopping, ALL, Pace::Whole, StreamEnding::End);

const ROM_STACK: Given = Given::Read(Content::RomStack, ALL, Pace::Whole, StreamEnding::End);

const COLORED: Given = Given::Read(Content::Colored, ALL, Pace::Whole, StreamEnding::End);

/// The first instruction crashes, with any keys.
const CRASH: Scenario = Scenario {
    about: "certify --hunt: the keys of a crash that can't be written",
    words: &[b"certify", b"game.gb", b"game.cert", b"--hunt", b"1"],
    written: DEVICE,
    status: 3,
    told: "game.crash.keys",
    has_clock: true,
    ..CERTIFY
};

pub const HUNTS: &[Scenario] = &[
    CRASH,
    Scenario {
        about: "certify --hunt: a crash is told, though its keys can't be written",
        told: "This crashes: FAULT F1 frame 0 pc 0150 bank 000",
        ..CRASH
    },
    Scenario {
        about: "certify --hunt: no crash",
        game: STOPPING,
        written: ExpectedOutput::Text("NO CERTIFICATE obstacles 1\n"),
        status: 1,
        told: "which proves nothing",
        ..CRASH
    },
    Scenario {
        about: "certify --hunt: no RAM for the stack",
        game: ROM_STACK,
        written: ExpectedOutput::Text("NO CERTIFICATE obstacles 1\n"),
        status: 1,
        told: "no hunt for a crash: `ld sp, $8000` leaves no WRAM or HRAM below SP",
        ..CRASH
    },
    Scenario {
        about: "certify: a person sees it, but there is no clock, so the hunt has no time",
        words: &[b"certify", b"game.gb", b"game.cert"],
        written: ExpectedOutput::Text("NO CERTIFICATE obstacles 1\n"),
        status: 1,
        told: "the hunt found no crash in 0 frames",
        is_shown: true,
        has_clock: false,
        ..CRASH
    },
    Scenario {
        about: "certify --hunt 0: the last line says what to do next",
        words: &[b"certify", b"game.gb", b"game.cert", b"--hunt", b"0"],
        written: ExpectedOutput::Text("NO CERTIFICATE obstacles 1\n"),
        status: 1,
        told: "certify: begin with finding 1, then run certify again; --report page.html shows how the game gets there",
        is_shown: true,
        ..CRASH
    },
    Scenario {
        about: "certify --hunt --explain",
        words: &[
            b"certify",
            b"--explain",
            b"game.gb",
            b"game.cert",
            b"--hunt",
            b"1",
        ],
        game: MISSING,
        written: NOTHING,
        status: 2,
        told: "--hunt can't be used with --explain or --list",
        ..CRASH
    },
    Scenario {
        about: "certify --hunt: more than a day",
        words: &[b"certify", b"game.gb", b"game.cert", b"--hunt", b"86401"],
        game: MISSING,
        written: NOTHING,
        status: 2,
        told: "86401",
        ..CRASH
    },
    Scenario {
        about: "certify --hunt: a cartridge with the name of the crash's keys; no file is opened",
        words: &[
            b"certify",
            b"game.crash.keys",
            b"game.cert",
            b"--hunt",
            b"1",
        ],
        game: MISSING,
        written: NOTHING,
        status: 2,
        told: "refuses to overwrite a file that certify reads",
        ..CRASH
    },
    Scenario {
        about: "certify --hunt: a page with the name of the crash's keys; no file is opened",
        words: &[
            b"certify",
            b"--report",
            b"game.crash.keys",
            b"game.gb",
            b"game.cert",
            b"--hunt",
            b"1",
        ],
        game: MISSING,
        written: NOTHING,
        status: 2,
        told: "can't write the same file",
        ..CRASH
    },
    Scenario {
        about: "certify: a cartridge for the Color",
        words: &[b"certify", b"game.gb", b"game.cert"],
        game: COLORED,
        written: ExpectedOutput::Text("NO CERTIFICATE obstacles 1\n"),
        status: 1,
        told: "certify: game.gb: The header has the Color flag ($0143 = $80), and the ROM is analysed as on a DMG.",
        ..CRASH
    },
];

/// The keys are written, and the finding at the crash's place is the first.
const KEYS_WRITTEN: Scenario = Scenario {
    about: "certify --hunt: the keys of a crash",
    written: ExpectedOutput::Text("NO CERTIFICATE obstacles 1\n"),
    status: 1,
    told: "Play it again: gulmyrek watch game.gb game.crash.keys 1 --stack FF80..FFFD\n  Finding 1 is at this place.",
    ..CRASH
};

/// The page has the crash too.
const PAGE_WRITTEN: Scenario = Scenario {
    about: "certify --report --hunt: a page with a crash, and markup in the names of symbols",
    words: &[
        b"certify",
        b"--report",
        b"page.html",
        b"game.gb",
        b"game.cert",
        b"--sym",
        b"game.keys",
        b"--hunt",
        b"1",
    ],
    game: UNDEFINED,
    cert: MISSING,
    written: ExpectedOutput::Text("NO CERTIFICATE obstacles 1\n"),
    status: 1,
    told: "begin with finding 1, then run certify again; page.html shows how the game gets there",
    is_shown: true,
    has_clock: true,
    ..PAGE
};

pub const CRASHES: &[ExpectedPage] = &[
    ExpectedPage {
        whole: KEYS_WRITTEN,
        broken: CRASH,
        files: WrittenFiles::CrashKeys,
    },
    ExpectedPage {
        whole: PAGE_WRITTEN,
        broken: Scenario {
            written: DEVICE,
            status: 3,
            told: "page.html",
            ..PAGE_WRITTEN
        },
        files: WrittenFiles::PageAndCrashKeys,
    },
];
