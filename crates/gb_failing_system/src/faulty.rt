//! The examples with something wrong: words, files and devices.

use crate::device::{Pace, StreamEnding};
use crate::rows::{
    ALL, CARTRIDGE, CERTIFICATE, CERTIFY, Content, DEVICE, EMPTY, ExpectedOutput, FAILING, Given,
    HEADER, LINES, LIST, MEMORY, MISSING, NO_LINES, NOTHING, REFUSED, REPORT, RUN, SHOW, Scenario,
    UPGRADE, VERIFY, VERIFY_INPUT, ZEROS,
};
use std::io::ErrorKind;

/// Each with the line that it ends with.
pub const FAULTY: &[Scenario] = &[
    Scenario {
        about: "no cartridge",
        game: MISSING,
        written: DEVICE,
        status: 3,
        told: "game.gb",
        ..VERIFY
    },
    Scenario {
        about: "no certificate",
        cert: MISSING,
        written: DEVICE,
        status: 3,
        told: "game.cert",
        ..VERIFY
    },
    Scenario {
        about: "no script",
        keys: MISSING,
        written: DEVICE,
        status: 3,
        told: "game.keys",
        ..RUN
    },
    Scenario {
        about: "a cartridge that may not be read",
        game: Given::Refused(ErrorKind::PermissionDenied),
        written: DEVICE,
        status: 3,
        told: "game.gb",
        ..HEADER
    },
    Scenario {
        about: "a folder in a certificate's place",
        cert: Given::Read(
            Content::Empty,
            ALL,
            Pace::Whole,
            StreamEnding::Failing(ErrorKind::IsADirectory),
        ),
        written: DEVICE,
        status: 3,
        told: "game.cert",
        ..SHOW
    },
    Scenario {
        about: "no memory to open a certificate",
        cert: Given::Refused(ErrorKind::OutOfMemory),
        written: MEMORY,
        status: 3,
        told: "game.cert",
        ..UPGRADE
    },
    Scenario {
        about: "standard input fails",
        input: Given::Read(Content::Empty, ALL, Pace::Whole, FAILING),
        written: DEVICE,
        status: 3,
        told: "standard input",
        ..VERIFY_INPUT
    },
    Scenario {
        about: "an empty cartridge",
        game: EMPTY,
        cert: EMPTY,
        written: ExpectedOutput::Text("CARTRIDGE H1\n"),
        status: 2,
        told: "gulmyrek: game.gb: not a valid ROM: the file is too short",
        ..VERIFY
    },
    Scenario {
        about: "a cartridge cut off before its header's end",
        game: Given::Read(Content::Cartridge, 335, Pace::Whole, StreamEnding::End),
        written: ExpectedOutput::Text("CARTRIDGE H1\n"),
        status: 2,
        ..RUN
    },
    Scenario {
        about: "a cartridge without its last byte",
        game: Given::Read(Content::Cartridge, 32_767, Pace::Whole, StreamEnding::End),
        written: ExpectedOutput::Text("CARTRIDGE H1\n"),
        status: 2,
        told: "gulmyrek: game.gb: not a valid ROM: the file is too short",
        ..RUN
    },
    Scenario {
        about: "an empty certificate",
        cert: EMPTY,
        written: ExpectedOutput::Text("CERTIFICATE C1\n"),
        status: 2,
        told: "game.cert",
        ..VERIFY
    },
    Scenario {
        about: "a certificate without its last byte",
        cert: Given::Read(Content::Certificate, 158, Pace::Whole, StreamEnding::End),
        written: ExpectedOutput::Text("CERTIFICATE C1\n"),
        status: 2,
        told: "game.cert",
        ..UPGRADE
    },
    Scenario {
        about: "a certificate with a byte left over",
        cert: Given::Read(Content::Longer, ALL, Pace::Slow, StreamEnding::End),
        written: ExpectedOutput::Text("CERTIFICATE C8\n"),
        status: 2,
        told: "game.cert",
        ..SHOW
    },
    Scenario {
        about: "upgrade to version 4: a certificate with a byte left over",
        words: &[b"gulmyrek", b"upgrade", b"--to", b"4", b"game.cert"],
        cert: Given::Read(Content::Longer, ALL, Pace::Whole, StreamEnding::End),
        written: ExpectedOutput::Text("CERTIFICATE C8\n"),
        status: 2,
        told: "game.cert",
        ..UPGRADE
    },
    Scenario {
        about: "the beginning of a certificate of version 4",
        cert: Given::Read(Content::Fourth, ALL, Pace::Whole, StreamEnding::End),
        written: ExpectedOutput::Text("CERTIFICATE C1\n"),
        status: 2,
        told: "game.cert",
        ..VERIFY
    },
    Scenario {
        about: "two files on standard input",
        words: &[b"gulmyrek", b"verify", b"-", b"-"],
        written: NOTHING,
        status: 2,
        told: "standard input",
        ..VERIFY
    },
    Scenario {
        about: "a cartridge and a script on standard input",
        words: &[b"gulmyrek", b"run", b"-", b"-", b"2"],
        written: NOTHING,
        status: 2,
        told: "standard input",
        ..VERIFY
    },
    Scenario {
        about: "a word that isn't UTF-8",
        words: &[b"gulmyrek", b"header", b"\xFF.gb"],
        written: NOTHING,
        status: 2,
        told: "UTF-8",
        ..VERIFY
    },
    Scenario {
        about: "more frames than 36,000, and no file is opened",
        words: &[b"gulmyrek", b"run", b"game.gb", b"game.keys", b"36001"],
        game: MISSING,
        keys: MISSING,
        written: NOTHING,
        status: 2,
        told: "36001",
        ..VERIFY
    },
    CERTIFY,
    Scenario {
        about: "certify --explain: a certificate that is refused",
        words: &[b"certify", b"--explain", b"game.gb", b"game.cert"],
        cert: CERTIFICATE,
        written: REFUSED,
        told: "a new certificate can't be made either",
        ..CERTIFY
    },
    Scenario {
        about: "certify: a certificate that may not be written",
        game: CARTRIDGE,
        cert: Given::Refused(ErrorKind::PermissionDenied),
        written: DEVICE,
        status: 3,
        told: "game.cert",
        ..CERTIFY
    },
    Scenario {
        about: "certify: no cartridge",
        game: MISSING,
        written: DEVICE,
        status: 3,
        told: "game.gb",
        ..CERTIFY
    },
    Scenario {
        about: "certify: an empty cartridge",
        game: EMPTY,
        written: ExpectedOutput::Text("CARTRIDGE H1\n"),
        status: 2,
        told: "certify: game.gb: not a valid ROM: the file is too short",
        ..CERTIFY
    },
    Scenario {
        about: "certify: no symbols",
        words: &[b"certify", b"game.gb", b"game.cert", b"--sym", b"game.keys"],
        written: DEVICE,
        status: 3,
        told: "game.keys",
        ..CERTIFY
    },
    LINES,
    Scenario {
        about: "certify --lines: a file that is no text",
        keys: Given::Read(Content::Garbage, ALL, Pace::Whole, StreamEnding::End),
        written: NOTHING,
        status: 2,
        told: "it isn't text",
        ..LINES
    },
    Scenario {
        about: "certify --lines: an empty file",
        keys: EMPTY,
        ..NO_LINES
    },
    Scenario {
        about: "certify --lines: symbols",
        keys: Given::Read(Content::Markup, ALL, Pace::Whole, StreamEnding::End),
        ..NO_LINES
    },
    Scenario {
        about: "certify --lines: a file without an end",
        keys: ZEROS,
        ..NO_LINES
    },
    Scenario {
        about: "certify --list: a certificate with a byte left over",
        cert: Given::Read(Content::Longer, ALL, Pace::Whole, StreamEnding::End),
        written: ExpectedOutput::Text("CERTIFICATE C8\n"),
        status: 2,
        told: "game.cert",
        ..LIST
    },
    REPORT,
    Scenario {
        about: "certify --compare: no older certificate",
        words: &[
            b"certify",
            b"--compare",
            b"game.keys",
            b"game.gb",
            b"game.cert",
        ],
        told: "game.keys",
        ..REPORT
    },
    Scenario {
        about: "certify --compare: an older certificate with a byte left over",
        words: &[
            b"certify",
            b"--compare",
            b"game.keys",
            b"game.gb",
            b"game.cert",
        ],
        keys: Given::Read(Content::Longer, ALL, Pace::Whole, StreamEnding::End),
        written: ExpectedOutput::Text("CERTIFICATE C8\n"),
        status: 2,
        told: "game.keys",
        ..REPORT
    },
    Scenario {
        about: "certify --compare: an older cartridge that isn't valid",
        words: &[
            b"certify",
            b"--compare",
            b"game.cert",
            b"--old-rom",
            b"game.keys",
            b"game.gb",
            b"game.cert",
        ],
        keys: EMPTY,
        written: ExpectedOutput::Text("CARTRIDGE H1\n"),
        status: 2,
        told: "game.keys",
        ..REPORT
    },
    Scenario {
        about: "certify --old-sym without --compare",
        words: &[
            b"certify",
            b"--old-sym",
            b"game.keys",
            b"game.gb",
            b"game.cert",
        ],
        written: NOTHING,
        status: 2,
        told: "need --compare",
        ..REPORT
    },
    Scenario {
        about: "certify --report: a page in the certificate's own file",
        words: &[
            b"certify",
            b"--report",
            b"game.cert",
            b"game.gb",
            b"game.cert",
        ],
        written: NOTHING,
        status: 2,
        told: "refuses to overwrite a file that it reads",
        ..REPORT
    },
    Scenario {
        about: "certify: a certificate written to standard input",
        words: &[b"certify", b"game.gb", b"-"],
        written: NOTHING,
        status: 2,
        told: "certify writes CERT, so it can't be -",
        ..CERTIFY
    },
    Scenario {
        about: "certify: a certificate in the cartridge's own file",
        words: &[b"certify", b"game.gb", b"game.gb"],
        game: CARTRIDGE,
        written: NOTHING,
        status: 2,
        told: "refuses to overwrite the ROM",
        ..CERTIFY
    },
    Scenario {
        about: "certify: more nodes than a certificate may have",
        words: &[b"certify", b"game.gb", b"game.cert", b"--nodes", b"1048577"],
        written: NOTHING,
        status: 2,
        told: "1048576",
        ..CERTIFY
    },
    Scenario {
        about: "certify: no second to search",
        words: &[b"certify", b"game.gb", b"game.cert", b"--seconds", b"0"],
        written: NOTHING,
        status: 2,
        told: "86400",
        ..CERTIFY
    },
    Scenario {
        about: "certify: a limit of time, but no clock",
        words: &[b"certify", b"game.gb", b"game.cert", b"--seconds", b"1"],
        ..CERTIFY
    },
    Scenario {
        about: "certify: a stack outside of RAM",
        words: &[
            b"certify",
            b"game.gb",
            b"game.cert",
            b"--stack",
            b"8000..80FF",
        ],
        written: NOTHING,
        status: 2,
        told: "--stack needs",
        ..CERTIFY
    },
];
