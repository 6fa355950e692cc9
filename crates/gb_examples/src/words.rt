//! The program's words.

use clap::error::ErrorKind;
use gb_words::{HuntOptions, TargetVersion, Task, WatchOptions, read_words};
use std::alloc::Global;

const VERIFY: Task<'static> = Task::Verify {
    rom: "A",
    cert: "B",
};

const DASHES: Task<'static> = Task::Verify {
    rom: "-a",
    cert: "--",
};

/// No option of a watched run.
const UNSET: WatchOptions<'static> = WatchOptions {
    stack: None,
    cert: None,
    symbols: None,
    events: None,
};

/// No option of a search.
const NO_OPTIONS: HuntOptions<'static> = HuntOptions {
    frames: None,
    seconds: None,
    seed: None,
    stack: None,
    keys: None,
    events: None,
    symbols: None,
    any_timing: false,
};

/// Words, and the task that they stand for.
const TASKS: [(&[&str], Task<'static>); 27] = [
    (&[], Task::Stored),
    (&["verify", "A", "B"], VERIFY),
    (&["verify", "--", "-a", "--"], DASHES),
    (&["header", "A"], Task::Header { rom: "A" }),
    (&["show", "A"], Task::Show { cert: "A" }),
    (
        &["upgrade", "-"],
        Task::Upgrade {
            cert: "-",
            to: TargetVersion::Two,
        },
    ),
    (
        &["upgrade", "--to", "2", "A"],
        Task::Upgrade {
            cert: "A",
            to: TargetVersion::Two,
        },
    ),
    (
        &["upgrade", "--to", "3", "-"],
        Task::Upgrade {
            cert: "-",
            to: TargetVersion::Three,
        },
    ),
    (
        &["upgrade", "--to", "4", "A"],
        Task::Upgrade {
            cert: "A",
            to: TargetVersion::Four,
        },
    ),
    (
        &["run", "A", "B", "36000"],
        Task::Run {
            rom: "A",
            script: "B",
            frames: 36_000,
        },
    ),
    (
        &["run", "A", "B", "0"],
        Task::Run {
            rom: "A",
            script: "B",
            frames: 0,
        },
    ),
    (
        &["run", "A", "B", "+60"],
        Task::Run {
            rom: "A",
            script: "B",
            frames: 60,
        },
    ),
    (
        &["run", "A", "B", "007"],
        Task::Run {
            rom: "A",
            script: "B",
            frames: 7,
        },
    ),
    (
        &["run", "A", "--", "B", "1"],
        Task::Run {
            rom: "A",
            script: "B",
            frames: 1,
        },
    ),
    (
        &["run", "--", "A", "B", "-0"],
        Task::Run {
            rom: "A",
            script: "B",
            frames: 0,
        },
    ),
    (
        &["watch", "A", "-", "60"],
        Task::Watch {
            rom: "A",
            script: "-",
            frames: 60,
            options: UNSET,
        },
    ),
    (
        &["watch", "--", "A", "B", "+7"],
        Task::Watch {
            rom: "A",
            script: "B",
            frames: 7,
            options: UNSET,
        },
    ),
    (
        &["watch", "A", "B", "36000", "--sym", "S"],
        Task::Watch {
            rom: "A",
            script: "B",
            frames: 36_000,
            options: WatchOptions {
                symbols: Some("S"),
                ..UNSET
            },
        },
    ),
    (
        &[
            "watch",
            "A",
            "B",
            "1",
            "--sym",
            "--cert",
            "--stack",
            "D000..DFFF",
            "--cert",
            "-",
        ],
        Task::Watch {
            rom: "A",
            script: "B",
            frames: 1,
            options: WatchOptions {
                stack: Some("D000..DFFF"),
                cert: Some("-"),
                symbols: Some("--cert"),
                ..UNSET
            },
        },
    ),
    (
        &["watch", "A", "--events", "E"],
        Task::Replay {
            rom: "A",
            events: "E",
            options: WatchOptions {
                events: Some("E"),
                ..UNSET
            },
        },
    ),
    (
        &["watch", "-", "--sym", "S", "--events", "--events"],
        Task::Replay {
            rom: "-",
            events: "--events",
            options: WatchOptions {
                symbols: Some("S"),
                events: Some("--events"),
                ..UNSET
            },
        },
    ),
    (
        &["hunt", "A", "--any-timing"],
        Task::Hunt {
            rom: "A",
            options: HuntOptions {
                any_timing: true,
                ..NO_OPTIONS
            },
        },
    ),
    (
        &[
            "hunt",
            "A",
            "--seed",
            "--any-timing",
            "--any-timing",
            "--events",
            "E",
        ],
        Task::Hunt {
            rom: "A",
            options: HuntOptions {
                seed: Some("--any-timing"),
                events: Some("E"),
                any_timing: true,
                ..NO_OPTIONS
            },
        },
    ),
    (
        &["hunt", "A"],
        Task::Hunt {
            rom: "A",
            options: NO_OPTIONS,
        },
    ),
    (
        &["hunt", "--", "A"],
        Task::Hunt {
            rom: "A",
            options: NO_OPTIONS,
        },
    ),
    (
        &["hunt", "A", "--keys", "K", "--frames", "9"],
        Task::Hunt {
            rom: "A",
            options: HuntOptions {
                frames: Some("9"),
                keys: Some("K"),
                ..NO_OPTIONS
            },
        },
    ),
    (
        &[
            "hunt",
            "A",
            "--sym",
            "--seed",
            "--stack",
            "D000..DFFF",
            "--seed",
            "-",
            "--seconds",
            "",
        ],
        Task::Hunt {
            rom: "A",
            options: HuntOptions {
                seconds: Some(""),
                seed: Some("-"),
                stack: Some("D000..DFFF"),
                symbols: Some("--seed"),
                ..NO_OPTIONS
            },
        },
    ),
];

/// Whether words stand for this task.
fn is_task(alloc: Global, words: &[&str], task: &Task<'_>) -> bool {
    match read_words(alloc, words) {
        Ok(read) => read == *task,
        Err(_) => false,
    }
}

#[test]
fn reads_each_task(rt: HostRuntime) {
    for (i, (words, task)) in TASKS.iter().enumerate() {
        assert!(rt; is_task(rt.alloc(), words, task), "words {i}");
    }
}

/// Words that stand for no task, and the kind of the error.
const OTHERS: [(&[&str], ErrorKind); 39] = [
    (&["verify", "A"], ErrorKind::MissingRequiredArgument),
    (&["turn"], ErrorKind::InvalidSubcommand),
    (&["verify", "A", "B", "C"], ErrorKind::UnknownArgument),
    (&["verify", "--fast", "A", "B"], ErrorKind::UnknownArgument),
    (&["--"], ErrorKind::MissingSubcommand),
    (&["--help"], ErrorKind::DisplayHelp),
    (&["--version"], ErrorKind::DisplayVersion),
    (&["header"], ErrorKind::MissingRequiredArgument),
    (&["header", "A", "B"], ErrorKind::UnknownArgument),
    (&["header", "--help"], ErrorKind::DisplayHelp),
    (&["show"], ErrorKind::MissingRequiredArgument),
    (&["upgrade", "A", "B"], ErrorKind::UnknownArgument),
    (&["upgrade", "--to", "1", "A"], ErrorKind::UnknownArgument),
    (&["upgrade", "--to", "5", "A"], ErrorKind::UnknownArgument),
    (&["upgrade", "--to", "3", "-a"], ErrorKind::UnknownArgument),
    (&["upgrade", "--to", "3"], ErrorKind::UnknownArgument),
    (&["upgrade", "A", "--to", "3"], ErrorKind::UnknownArgument),
    (&["run", "A"], ErrorKind::MissingRequiredArgument),
    (&["run", "A", "B"], ErrorKind::MissingRequiredArgument),
    (&["run", "A", "B", "36001"], ErrorKind::ValueValidation),
    (&["run", "A", "B", "x"], ErrorKind::ValueValidation),
    (&["run", "A", "B", "-1"], ErrorKind::UnknownArgument),
    (&["run", "--", "A", "B", "-1"], ErrorKind::ValueValidation),
    (&["run", "A", "B", ""], ErrorKind::ValueValidation),
    (&["run", "A", "B", "1", "2"], ErrorKind::UnknownArgument),
    (&["watch", "A", "B"], ErrorKind::MissingRequiredArgument),
    (&["watch", "A", "B", "36001"], ErrorKind::ValueValidation),
    (
        &["watch", "A", "B", "1", "--stack"],
        ErrorKind::UnknownArgument,
    ),
    (
        &["watch", "A", "B", "1", "--seed", "1"],
        ErrorKind::UnknownArgument,
    ),
    (
        &["watch", "A", "B", "1", "--sym", "S", "--sym", "S"],
        ErrorKind::UnknownArgument,
    ),
    (&["watch", "A", "--events"], ErrorKind::UnknownArgument),
    (
        &["watch", "A", "B", "1", "--events", "E"],
        ErrorKind::UnknownArgument,
    ),
    (
        &["watch", "A", "--events", "E", "--events", "E"],
        ErrorKind::UnknownArgument,
    ),
    (&["watch", "--help"], ErrorKind::DisplayHelp),
    (&["hunt"], ErrorKind::MissingRequiredArgument),
    (&["hunt", "A", "--keys"], ErrorKind::UnknownArgument),
    (
        &["hunt", "A", "--seed", "1", "--seed", "1"],
        ErrorKind::UnknownArgument,
    ),
    (
        &["hunt", "A", "--any-timing", "--any-timing"],
        ErrorKind::UnknownArgument,
    ),
    (&["hunt", "--help"], ErrorKind::DisplayHelp),
];

/// Whether words are refused with an error of this kind.
fn is_refused(alloc: Global, words: &[&str], kind: ErrorKind) -> bool {
    match read_words(alloc, words) {
        Ok(_) => false,
        Err(error) => error.kind() == kind,
    }
}

#[test]
fn refuses_other_words(rt: HostRuntime) {
    for (i, (words, kind)) in OTHERS.iter().enumerate() {
        assert!(rt; is_refused(rt.alloc(), words, *kind), "words {i}");
    }
}

const WANTED: [(&[&str], Task<'static>); 2] = [
    (&["verify", "A", "B"], VERIFY),
    (
        &["run", "A", "B", "5"],
        Task::Run {
            rom: "A",
            script: "B",
            frames: 5,
        },
    ),
];

/// Where an allocation is refused, want of memory is the only other answer.
#[test]
fn reads_words_or_wants_memory(rt: HostRuntime) {
    for (words, expected) in WANTED {
        match read_words(rt.alloc(), words) {
            Ok(task) => assert!(rt; task == expected),
            Err(error) => assert!(rt; error.kind() == ErrorKind::OutOfMemory),
        }
    }
    match read_words(rt.alloc(), &["turn"]) {
        Ok(_) => assert!(rt; false),
        Err(error) => {
            let kind = error.kind();
            assert!(rt; kind == ErrorKind::OutOfMemory || kind == ErrorKind::InvalidSubcommand);
        }
    }
}
