//! Which files of a command are standard input.

ghost use Rattle.std.specs.Prelude.{◌≡◌};
ghost use Rattle.gb_program.specs.Input.{is_given_input, has_watched_twice, has_input_twice};

use gb_command_line::is_input;
use gb_words::{Task, WatchOptions};

/// Whether a file is named, and is standard input.
fn is_given_input(name: Option<&str>) -> bool
    ensures { result ≡ is_given_input name.entry }
{
    match name {
        Some(name) => is_input(name),
        None => false,
    }
}

/// Whether two files of `watch` are.
fn has_watched_twice(rom: &str, script: &str, options: &WatchOptions<'_>) -> bool
    ensures { result ≡ has_watched_twice rom.now script.now options.now }
{
    let first = is_input(rom);
    let second = is_input(script);
    let third = is_given_input(options.cert);
    let fourth = is_given_input(options.symbols);
    first && second || (first || second) && third || (first || second || third) && fourth
}

/// Whether two files of a task are standard input, which can be read only once.
pub fn has_input_twice(task: &Task<'_>) -> bool
    ensures { result ≡ has_input_twice task.now }
{
    match *task {
        Task::Verify { rom, cert } => is_input(rom) && is_input(cert),
        Task::Run { rom, script, .. } => is_input(rom) && is_input(script),
        Task::Watch {
            rom,
            script,
            options,
            ..
        } => has_watched_twice(rom, script, &options),
        Task::Replay {
            rom,
            events,
            options,
        } => has_watched_twice(rom, events, &options),
        Task::Hunt { rom, options } => is_input(rom) && is_given_input(options.symbols),
        Task::Stored | Task::Header { .. } | Task::Show { .. } | Task::Upgrade { .. } => false,
    }
}
