//! Words in any order: each list of them is a task, or is refused.

use crate::random::Random;
use crate::tally::Tally;
use clap::error::ErrorKind;
use gb_words::{Task, read_words};
use std::alloc::Global;

const WORDS: [&str; 20] = [
    "verify",
    "header",
    "show",
    "upgrade",
    "run",
    "help",
    "turn",
    "A",
    "B",
    "-",
    "--",
    "--help",
    "-h",
    "--version",
    "",
    "0",
    "60",
    "36000",
    "36001",
    "-1",
];

/// The most words of a list.
const MOST: usize = 7;

/// Whether a list is a task whose names are words of it and whose frames are few enough, or an error that isn't want of
/// memory.
fn is_read(alloc: Global, words: &[&str], tally: &mut Tally) -> bool {
    match read_words(alloc, words) {
        Ok(task) => {
            tally.count_readable();
            match task {
                Task::Stored => words.is_empty(),
                Task::Verify { rom, cert } => words.contains(&rom) && words.contains(&cert),
                Task::Header { rom } | Task::Hunt { rom, .. } => words.contains(&rom),
                Task::Replay { rom, events, .. } => words.contains(&rom) && words.contains(&events),
                Task::Show { cert } | Task::Upgrade { cert, .. } => words.contains(&cert),
                Task::Run {
                    rom,
                    script,
                    frames,
                }
                | Task::Watch {
                    rom,
                    script,
                    frames,
                    ..
                } => words.contains(&rom) && words.contains(&script) && frames <= 36_000,
            }
        }
        Err(error) => error.kind() != ErrorKind::OutOfMemory,
    }
}

/// Reads so many lists of words. The first is a command in half of them, so that some are tasks.
pub fn storm(alloc: Global, random: &mut Random, count: usize) -> Tally {
    let mut tally = Tally::new();
    for _ in 0..count {
        let mut words = [""; MOST];
        for word in &mut words {
            *word = WORDS[random.below(20)];
        }
        if random.below(2) == 0 {
            words[0] = WORDS[random.below(5)];
        }
        let length = random.below(MOST);
        let is_right = is_read(alloc, words.get(..length).unwrap_or(&[]), &mut tally);
        tally.count(is_right);
    }
    tally
}
