//! Examples of lists of events: files of them, and the search for them.

use crate::device::{Pace, StreamEnding};
use crate::rows::{
    ALL, CERTIFICATE, Content, DEVICE, EMPTY, ExpectedOutput, Given, HUNT, MISSING, NOTHING,
    Scenario, UNDEFINED, WATCH,
};
use std::io::ErrorKind;

/// Four instructions of a cartridge that goes on and on.
const REPLAY: Scenario = Scenario {
    about: "watch with events",
    words: &[b"gulmyrek", b"watch", b"game.gb", b"--events", b"game.keys"],
    keys: Given::Read(Content::Events, ALL, Pace::Whole, StreamEnding::End),
    written: ExpectedOutput::Text("WHOLE events 4\n"),
    ..WATCH
};

/// A search for events that has no time: without a clock none is left.
const STORM: Scenario = Scenario {
    about: "hunt at any timing: no clock, so no time is left",
    words: &[
        b"gulmyrek",
        b"hunt",
        b"game.gb",
        b"--any-timing",
        b"--seconds",
        b"1",
    ],
    written: ExpectedOutput::Text("NO FAULT events 0\n"),
    ..HUNT
};

/// Lists of events that are read, and that are searched for.
pub const EVENTS: &[Scenario] = &[
    REPLAY,
    STORM,
    Scenario {
        about: "events with a fault",
        game: UNDEFINED,
        written: ExpectedOutput::Text("FAULT F1 event 2 pc 0150 bank 000\n"),
        status: 1,
        told: "opcode $D3 doesn't exist",
        ..REPLAY
    },
    Scenario {
        about: "no events",
        keys: MISSING,
        written: DEVICE,
        status: 3,
        told: "game.keys",
        ..REPLAY
    },
    Scenario {
        about: "events that may not be read",
        keys: Given::Refused(ErrorKind::PermissionDenied),
        written: DEVICE,
        status: 3,
        told: "game.keys",
        ..REPLAY
    },
    Scenario {
        about: "a line that is no event",
        keys: Given::Read(Content::WrongEvents, ALL, Pace::Whole, StreamEnding::End),
        written: NOTHING,
        status: 2,
        told: "game.keys: line 2 is no event",
        ..REPLAY
    },
    Scenario {
        about: "events that are no text",
        keys: Given::Read(Content::Garbage, ALL, Pace::Whole, StreamEnding::End),
        written: NOTHING,
        status: 2,
        told: "it isn't text",
        ..REPLAY
    },
    Scenario {
        about: "events on a cartridge that is empty",
        game: EMPTY,
        written: ExpectedOutput::Text("CARTRIDGE H1\n"),
        status: 2,
        told: "the file is too short",
        ..REPLAY
    },
    Scenario {
        about: "events on standard input",
        words: &[b"gulmyrek", b"watch", b"game.gb", b"--events", b"-"],
        keys: MISSING,
        input: Given::Read(Content::Events, ALL, Pace::Whole, StreamEnding::End),
        ..REPLAY
    },
    Scenario {
        about: "events and symbols on standard input",
        words: &[
            b"gulmyrek",
            b"watch",
            b"game.gb",
            b"--events",
            b"-",
            b"--sym",
            b"-",
        ],
        written: NOTHING,
        status: 2,
        told: "standard input",
        ..REPLAY
    },
    Scenario {
        about: "events for the stack of a certificate",
        words: &[
            b"gulmyrek",
            b"watch",
            b"game.gb",
            b"--cert",
            b"game.cert",
            b"--events",
            b"game.keys",
        ],
        cert: CERTIFICATE,
        ..REPLAY
    },
    Scenario {
        about: "events and a script",
        words: &[
            b"gulmyrek",
            b"watch",
            b"game.gb",
            b"game.keys",
            b"2",
            b"--events",
            b"other.keys",
        ],
        written: NOTHING,
        status: 2,
        told: "--events",
        ..REPLAY
    },
    Scenario {
        about: "hunt at any timing with a fault",
        words: &[b"gulmyrek", b"hunt", b"game.gb", b"--any-timing"],
        game: UNDEFINED,
        written: ExpectedOutput::Text("FAULT F1 event 2 pc 0150 bank 000\n"),
        status: 1,
        told: "opcode $D3 doesn't exist",
        ..STORM
    },
    Scenario {
        about: "hunt at any timing: events that can't be written",
        words: &[
            b"gulmyrek",
            b"hunt",
            b"game.gb",
            b"--any-timing",
            b"--events",
            b"other.keys",
        ],
        game: UNDEFINED,
        written: DEVICE,
        status: 3,
        told: "other.keys",
        ..STORM
    },
    Scenario {
        about: "hunt at any timing: events in the cartridge's place; no file is opened",
        words: &[
            b"gulmyrek",
            b"hunt",
            b"game.gb",
            b"--any-timing",
            b"--events",
            b"game.gb",
        ],
        game: MISSING,
        written: NOTHING,
        status: 2,
        told: "refuses to overwrite",
        ..STORM
    },
    Scenario {
        about: "hunt at any timing: keys to be written; no file is opened",
        words: &[
            b"gulmyrek",
            b"hunt",
            b"game.gb",
            b"--any-timing",
            b"--keys",
            b"other.keys",
        ],
        game: MISSING,
        written: NOTHING,
        status: 2,
        told: "--keys can't be used with --any-timing",
        ..STORM
    },
    Scenario {
        about: "hunt at any timing: frames; no file is opened",
        words: &[
            b"gulmyrek",
            b"hunt",
            b"game.gb",
            b"--frames",
            b"2",
            b"--any-timing",
        ],
        game: MISSING,
        written: NOTHING,
        status: 2,
        told: "--frames can't be used with --any-timing",
        ..STORM
    },
    Scenario {
        about: "hunt for keys: events to be written; no file is opened",
        words: &[b"gulmyrek", b"hunt", b"game.gb", b"--events", b"other.keys"],
        game: MISSING,
        written: NOTHING,
        status: 2,
        told: "--events needs --any-timing",
        ..STORM
    },
];
