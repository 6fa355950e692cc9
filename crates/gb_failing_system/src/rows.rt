//! The worked examples: what the program meets, what it has to write, and its status.

use crate::device::{Pace, StreamEnding};
use std::io::ErrorKind;

/// Which of the two programs is played.
#[derive(Clone, Copy)]
pub enum Tool {
    Gulmyrek,
    Certify,
}

/// A file's bytes.
#[derive(Clone, Copy)]
pub enum Content {
    Empty,
    /// The least cartridge.
    Cartridge,
    /// The least cartridge with an undefined opcode at 0150.
    Undefined,
    /// The least cartridge with a STOP at 0150.
    Stopping,
    /// The least cartridge with LD SP,8000 at 0150.
    RomStack,
    /// The least cartridge with an undefined opcode and the Color flag.
    Colored,
    /// The least cartridge's certificate.
    Certificate,
    /// The certificate with a byte left over.
    Longer,
    /// The first bytes of a certificate of version 4.
    Fourth,
    /// A certificate of version 3 whose procedures stand out of order.
    Unordered,
    /// The same in version 4, where they stand in order.
    Ordered,
    /// Symbols with markup in their names.
    Markup,
    /// Bytes that are no text.
    Garbage,
    /// Four instructions, as a list of events.
    Events,
    /// A list of events with a line that is none.
    WrongEvents,
}

/// What stands behind a name.
#[derive(Clone, Copy)]
pub enum Given {
    /// It can't be opened.
    Refused(ErrorKind),
    /// The first of these bytes, as many as are named, and what comes behind them.
    Read(Content, usize, Pace, StreamEnding),
}

/// What the program has to write.
#[derive(Clone, Copy)]
pub enum ExpectedOutput {
    Text(&'static str),
    /// A screen of the lightest shade, and then this line.
    Screen(&'static str),
    /// The certificate in version 2.
    Upgraded,
    /// The certificate with procedures out of order, in version 4.
    Ordered,
}

/// An example. `told` is in what standard error tells, where it isn't empty.
#[derive(Clone, Copy)]
pub struct Scenario {
    pub about: &'static str,
    pub tool: Tool,
    pub words: &'static [&'static [u8]],
    pub game: Given,
    pub cert: Given,
    pub keys: Given,
    pub input: Given,
    pub written: ExpectedOutput,
    pub status: u8,
    pub told: &'static str,
    /// Whether a person sees standard error as it comes.
    pub is_shown: bool,
    /// Whether there is a clock.
    pub has_clock: bool,
}

/// Which of the four is cut off.
#[derive(Clone, Copy)]
pub enum FilePlace {
    Game,
    Cert,
    Keys,
    Input,
}

/// The files that an example writes whole or not at all.
#[derive(Clone, Copy, PartialEq, Eq)]
pub enum WrittenFiles {
    Page,
    /// The keys of a crash.
    CrashKeys,
    PageAndCrashKeys,
}

/// An example that writes files, and the same where it can't.
pub struct ExpectedPage {
    pub whole: Scenario,
    pub broken: Scenario,
    pub files: WrittenFiles,
}

/// An example that is played with a place cut off behind each of some numbers of bytes: 0, `step` and so on up to `most`.
pub struct Cuts {
    pub row: Scenario,
    pub place: FilePlace,
    pub most: usize,
    pub step: usize,
}

/// More bytes than any of the files has.
pub(crate) const ALL: usize = usize::MAX;

pub(crate) const CARTRIDGE: Given = Given::Read(
    Content::Cartridge,
    ALL,
    Pace::Whole,
    StreamEnding::End,
);

pub(crate) const UNDEFINED: Given = Given::Read(
    Content::Undefined,
    ALL,
    Pace::Whole,
    StreamEnding::End,
);

pub(crate) const CERTIFICATE: Given = Given::Read(
    Content::Certificate,
    ALL,
    Pace::Whole,
    StreamEnding::End,
);

pub(crate) const MISSING: Given = Given::Refused(ErrorKind::NotFound);

pub(crate) const EMPTY: Given = Given::Read(Content::Empty, 0, Pace::Whole, StreamEnding::End);

/// Zeros without an end.
pub(crate) const ZEROS: Given = Given::Read(Content::Empty, 0, Pace::Whole, StreamEnding::Zeros);

pub(crate) const FAILING: StreamEnding = StreamEnding::Failing(ErrorKind::Other);

pub(crate) const NO_ROOM: StreamEnding = StreamEnding::Failing(ErrorKind::OutOfMemory);

const ACCEPTED: ExpectedOutput = ExpectedOutput::Text("ACCEPTED nodes 3 procedures 1\n");

pub(crate) const REFUSED: ExpectedOutput = ExpectedOutput::Text("REFUSED node 2 reason 5\n");

/// What a certificate changed beside itself: its main needs no stack and calls nothing.
const UNCHANGED: &str = "\
ACCEPTED nodes 3 procedures 1\n\
{\"before\":{\"stack\":0,\"way\":null},\"differences\":[],\"is_changed\":false,\"now\":{\"stack\":0,\"way\":[\"main\"]}}\n";

pub(crate) const DEVICE: ExpectedOutput = ExpectedOutput::Text("FAULT device\n");

pub(crate) const MEMORY: ExpectedOutput = ExpectedOutput::Text("FAULT memory\n");

pub(crate) const NOTHING: ExpectedOutput = ExpectedOutput::Text("");

const VERSION: ExpectedOutput = ExpectedOutput::Text("gulmyrek 0.5.0\n");

const HEADER_LINE: ExpectedOutput = ExpectedOutput::Text(
    "type 00 ROM rom 2 ram 0 clock no checksum E7\n",
);

const SHOWN: ExpectedOutput = ExpectedOutput::Text(
    "\
stack DF00..DFFF procedures 1 nodes 3\n\
procedure 0 entry 0 need 0 ranges 0 returns no\n\
node 0 procedure 0 address 0100 bank 000\n\
node 1 procedure 0 address 0101 bank 000\n\
node 2 procedure 0 address 0150 bank 000\n",
);

const LISTED: ExpectedOutput = ExpectedOutput::Text(
    "\
stack DF00-DFFF, procedures 1, nodes 3\n\
\n\
procedure 0: 0 bytes of stack, does not return, writes no RAM\n    \
    00:0100  NOP\n        \
        A=01 B=00 C=13 D=00 E=D8 H=01 L=4D Z=1 C=1; interrupts off, IE=00, bank 01, cartridge RAM disabled, bytes 0\n    \
    00:0101  JP $0150\n        \
        A=01 B=00 C=13 D=00 E=D8 H=01 L=4D Z=1 C=1; interrupts off, IE=00, bank 01, cartridge RAM disabled, bytes 0\n    \
    00:0150  JR $0150\n        \
        A=01 B=00 C=13 D=00 E=D8 H=01 L=4D Z=1 C=1; interrupts off, IE=00, bank 01, cartridge RAM disabled, bytes 0\n",
);

/// Both files are read, and the verdict is written.
pub(crate) const VERIFY: Scenario = Scenario {
    about: "verify",
    tool: Tool::Gulmyrek,
    words: &[b"gulmyrek", b"verify", b"game.gb", b"game.cert"],
    game: CARTRIDGE,
    cert: CERTIFICATE,
    keys: MISSING,
    input: EMPTY,
    written: ACCEPTED,
    status: 0,
    told: "",
    is_shown: false,
    has_clock: false,
};

pub(crate) const HEADER: Scenario = Scenario {
    about: "header",
    words: &[b"gulmyrek", b"header", b"game.gb"],
    cert: MISSING,
    written: HEADER_LINE,
    ..VERIFY
};

pub(crate) const SHOW: Scenario = Scenario {
    about: "show",
    words: &[b"gulmyrek", b"show", b"game.cert"],
    game: MISSING,
    written: SHOWN,
    ..VERIFY
};

pub(crate) const UPGRADE: Scenario = Scenario {
    about: "upgrade",
    words: &[b"gulmyrek", b"upgrade", b"game.cert"],
    game: MISSING,
    written: ExpectedOutput::Upgraded,
    ..VERIFY
};

/// Procedures and nodes change places.
const UPGRADE_WHOLE: Scenario = Scenario {
    about: "upgrade to version 4",
    words: &[b"gulmyrek", b"upgrade", b"--to", b"4", b"game.cert"],
    cert: Given::Read(Content::Unordered, ALL, Pace::Whole, StreamEnding::End),
    written: ExpectedOutput::Ordered,
    ..UPGRADE
};

/// Two frames with a script that never ends: no more of it is read.
pub(crate) const RUN: Scenario = Scenario {
    about: "run with a script without an end",
    words: &[b"gulmyrek", b"run", b"game.gb", b"game.keys", b"2"],
    cert: MISSING,
    keys: ZEROS,
    written: ExpectedOutput::Screen("WHOLE frames 2\n"),
    ..VERIFY
};

/// The same, watched.
pub(crate) const WATCH: Scenario = Scenario {
    about: "watch with a script without an end",
    words: &[b"gulmyrek", b"watch", b"game.gb", b"game.keys", b"2"],
    written: ExpectedOutput::Text("WHOLE frames 2\n"),
    ..RUN
};

/// The same for the stack of a certificate.
const WATCH_CERTIFIED: Scenario = Scenario {
    about: "watch with a certificate's stack",
    words: &[
        b"gulmyrek",
        b"watch",
        b"game.gb",
        b"game.keys",
        b"2",
        b"--cert",
        b"game.cert",
    ],
    cert: CERTIFICATE,
    ..WATCH
};

/// Two frames in which no keys lead to a fault.
pub(crate) const HUNT: Scenario = Scenario {
    about: "hunt without a fault",
    words: &[b"gulmyrek", b"hunt", b"game.gb", b"--frames", b"2"],
    cert: MISSING,
    written: ExpectedOutput::Text("NO FAULT frames 2\n"),
    told: "proves nothing",
    ..VERIFY
};

pub(crate) const VERIFY_INPUT: Scenario = Scenario {
    about: "a cartridge on standard input, a byte with each read",
    words: &[b"gulmyrek", b"verify", b"-", b"game.cert"],
    game: MISSING,
    input: Given::Read(Content::Cartridge, ALL, Pace::Slow, StreamEnding::End),
    ..VERIFY
};

/// No certificate can be made of the cartridge, and none is written.
pub(crate) const CERTIFY: Scenario = Scenario {
    about: "certify: an undefined opcode",
    tool: Tool::Certify,
    words: &[b"certify", b"game.gb", b"game.cert"],
    game: UNDEFINED,
    cert: MISSING,
    written: ExpectedOutput::Text("NO CERTIFICATE obstacles 1\n"),
    status: 1,
    told: "00:0150",
    ..VERIFY
};

pub(crate) const LINES: Scenario = Scenario {
    about: "certify --lines: no file",
    words: &[
        b"certify",
        b"game.gb",
        b"game.cert",
        b"--lines",
        b"game.keys",
    ],
    written: DEVICE,
    status: 3,
    told: "game.keys",
    ..CERTIFY
};

/// A file that tells of no line.
pub(crate) const NO_LINES: Scenario = Scenario {
    written: NOTHING,
    status: 2,
    told: "game.keys: no source lines: use an SDCC .cdb",
    ..LINES
};

pub(crate) const LIST: Scenario = Scenario {
    about: "certify --list",
    tool: Tool::Certify,
    words: &[b"certify", b"--list", b"game.gb", b"game.cert"],
    written: LISTED,
    ..VERIFY
};

/// A page can't be written.
pub(crate) const REPORT: Scenario = Scenario {
    about: "certify --report: a page that may not be written",
    tool: Tool::Certify,
    words: &[
        b"certify",
        b"--report",
        b"page.html",
        b"game.gb",
        b"game.cert",
    ],
    written: DEVICE,
    status: 3,
    told: "page.html",
    ..VERIFY
};

/// A page is written, with symbols that have markup in their names.
pub(crate) const PAGE: Scenario = Scenario {
    about: "certify --report: a page with markup in the names of symbols",
    words: &[
        b"certify",
        b"--report",
        b"page.html",
        b"game.gb",
        b"game.cert",
        b"--sym",
        b"game.keys",
    ],
    keys: Given::Read(Content::Markup, ALL, Pace::Whole, StreamEnding::End),
    written: ACCEPTED,
    status: 0,
    told: "",
    ..REPORT
};

/// The facts for programs, and what changed since the same certificate: nothing.
const FACTS: Scenario = Scenario {
    about: "certify --report --json --compare: facts compared with the same certificate",
    words: &[
        b"certify",
        b"--report",
        b"page.html",
        b"--json",
        b"--compare",
        b"game.cert",
        b"game.gb",
        b"game.cert",
    ],
    written: ExpectedOutput::Text(UNCHANGED),
    ..PAGE
};

/// The page of a cartridge for which no certificate can be made.
const FINDINGS: Scenario = Scenario {
    about: "certify --report: a page of findings",
    game: UNDEFINED,
    cert: MISSING,
    written: ExpectedOutput::Text("NO CERTIFICATE obstacles 1\n"),
    status: 1,
    ..PAGE
};

pub const PAGES: &[ExpectedPage] = &[
    ExpectedPage {
        whole: PAGE,
        broken: Scenario {
            written: DEVICE,
            status: 3,
            told: "page.html",
            ..PAGE
        },
        files: WrittenFiles::Page,
    },
    ExpectedPage {
        whole: FACTS,
        broken: Scenario {
            written: DEVICE,
            status: 3,
            told: "page.html",
            ..FACTS
        },
        files: WrittenFiles::Page,
    },
    ExpectedPage {
        whole: FINDINGS,
        broken: Scenario {
            written: DEVICE,
            status: 3,
            told: "page.html",
            ..FINDINGS
        },
        files: WrittenFiles::Page,
    },
];

pub const READ: &[Scenario] = &[
    Scenario {
        about: "no words",
        words: &[b"gulmyrek"],
        game: MISSING,
        cert: MISSING,
        ..VERIFY
    },
    VERIFY,
    HEADER,
    SHOW,
    UPGRADE,
    UPGRADE_WHOLE,
    Scenario {
        about: "upgrade to version 4: a certificate of version 4",
        cert: Given::Read(Content::Ordered, ALL, Pace::Slow, StreamEnding::End),
        ..UPGRADE_WHOLE
    },
    Scenario {
        about: "upgrade to version 3: a certificate of version 4",
        words: &[b"gulmyrek", b"upgrade", b"--to", b"3", b"game.cert"],
        cert: Given::Read(Content::Ordered, ALL, Pace::Whole, StreamEnding::End),
        ..UPGRADE_WHOLE
    },
    RUN,
    WATCH,
    WATCH_CERTIFIED,
    HUNT,
    Scenario {
        about: "a byte with each read",
        game: Given::Read(Content::Cartridge, ALL, Pace::Slow, StreamEnding::End),
        cert: Given::Read(Content::Certificate, ALL, Pace::Slow, StreamEnding::End),
        ..VERIFY
    },
    Scenario {
        about: "every other read is interrupted",
        game: Given::Read(
            Content::Cartridge,
            ALL,
            Pace::Interrupted,
            StreamEnding::End,
        ),
        cert: Given::Read(
            Content::Certificate,
            ALL,
            Pace::Interrupted,
            StreamEnding::End,
        ),
        ..VERIFY
    },
    VERIFY_INPUT,
    Scenario {
        about: "a certificate on standard input",
        words: &[b"gulmyrek", b"verify", b"game.gb", b"-"],
        cert: MISSING,
        input: CERTIFICATE,
        ..VERIFY
    },
    Scenario {
        about: "a script on standard input, which fails behind as many bytes as there are frames",
        words: &[b"gulmyrek", b"run", b"game.gb", b"-", b"2"],
        keys: MISSING,
        input: Given::Read(Content::Cartridge, 2, Pace::Slow, FAILING),
        ..RUN
    },
    Scenario {
        about: "the version",
        words: &[b"gulmyrek", b"--version"],
        written: VERSION,
        ..VERIFY
    },
    LIST,
];

/// Refused certificates, runs that lock, and what `watch` and `hunt` say.
pub const PLAYED: &[Scenario] = &[
    Scenario {
        about: "a certificate that is refused",
        game: UNDEFINED,
        written: REFUSED,
        status: 1,
        told: "game.cert",
        ..VERIFY
    },
    Scenario {
        about: "a run that locks",
        game: UNDEFINED,
        written: ExpectedOutput::Screen("LOCKED frame 0 pc 0150\n"),
        status: 1,
        ..RUN
    },
    Scenario {
        about: "a watched run with a fault",
        game: UNDEFINED,
        written: ExpectedOutput::Text("FAULT F1 frame 0 pc 0150 bank 000\n"),
        status: 1,
        told: "opcode $D3 doesn't exist",
        ..WATCH
    },
    Scenario {
        about: "a stack to be watched that isn't RAM; no file is opened",
        words: &[
            b"gulmyrek",
            b"watch",
            b"game.gb",
            b"game.keys",
            b"2",
            b"--stack",
            b"7FFE..7FFF",
        ],
        game: MISSING,
        keys: MISSING,
        written: NOTHING,
        status: 2,
        told: "--stack needs",
        ..WATCH
    },
    Scenario {
        about: "watch with a certificate that has a byte left over",
        cert: Given::Read(Content::Longer, ALL, Pace::Whole, StreamEnding::End),
        written: ExpectedOutput::Text("CERTIFICATE C8\n"),
        status: 2,
        told: "game.cert",
        ..WATCH_CERTIFIED
    },
    Scenario {
        about: "watch with symbols that are no text",
        words: &[
            b"gulmyrek",
            b"watch",
            b"game.gb",
            b"-",
            b"2",
            b"--sym",
            b"game.keys",
        ],
        keys: Given::Read(Content::Garbage, ALL, Pace::Whole, StreamEnding::End),
        input: EMPTY,
        written: NOTHING,
        status: 2,
        told: "it isn't text",
        ..WATCH
    },
    Scenario {
        about: "watch with a script and symbols on standard input",
        words: &[
            b"gulmyrek",
            b"watch",
            b"game.gb",
            b"-",
            b"2",
            b"--sym",
            b"-",
        ],
        written: NOTHING,
        status: 2,
        told: "standard input",
        ..WATCH
    },
    Scenario {
        about: "hunt with a fault",
        game: UNDEFINED,
        written: ExpectedOutput::Text("FAULT F1 frame 0 pc 0150 bank 000\n"),
        status: 1,
        told: "opcode $D3 doesn't exist",
        ..HUNT
    },
    Scenario {
        about: "hunt: keys that can't be written",
        words: &[b"gulmyrek", b"hunt", b"game.gb", b"--keys", b"other.keys"],
        game: UNDEFINED,
        written: DEVICE,
        status: 3,
        told: "other.keys",
        ..HUNT
    },
    Scenario {
        about: "hunt: keys in the cartridge's place; no file is opened",
        words: &[b"gulmyrek", b"hunt", b"game.gb", b"--keys", b"game.gb"],
        game: MISSING,
        written: NOTHING,
        status: 2,
        told: "refuses to overwrite",
        ..HUNT
    },
    Scenario {
        about: "hunt: frames that are no number; no file is opened",
        words: &[b"gulmyrek", b"hunt", b"game.gb", b"--frames", b"many"],
        game: MISSING,
        written: NOTHING,
        status: 2,
        told: "--frames needs",
        ..HUNT
    },
    Scenario {
        about: "hunt: no clock, so no time is left",
        words: &[b"gulmyrek", b"hunt", b"game.gb", b"--seconds", b"1"],
        written: ExpectedOutput::Text("NO FAULT frames 0\n"),
        ..HUNT
    },
    Scenario {
        about: "hunt: an empty cartridge",
        game: EMPTY,
        written: ExpectedOutput::Text("CARTRIDGE H1\n"),
        status: 2,
        told: "gulmyrek: game.gb: not a valid ROM: the file is too short",
        ..HUNT
    },
    Scenario {
        about: "hunt: a cartridge and symbols on standard input",
        words: &[b"gulmyrek", b"hunt", b"-", b"--sym", b"-"],
        written: NOTHING,
        status: 2,
        told: "standard input",
        ..HUNT
    },
];
