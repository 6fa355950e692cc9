//! The program's words, read by `clap`.

ghost use Rattle.std.specs.Prelude.{◌≡◌, ◌∷◌, ◌≤◌, [], IfErr, IfOk, IfSome, IsOk, List, Some, codes, decimal, false, is_some, map, true, ℕ};
ghost use Rattle.clap.specs.Words.{App, FailsBy, HasMatchesOf, fault_of, first_value, found_of, has_subcommand, is_simple_and_free, kind_of, rule_of, with_rule, with_subcommand};
ghost use Rattle.gb_words.specs.CommandLine;
ghost use Rattle.gb_words.specs.HuntWords;
ghost use Rattle.gb_words.specs.Words;

use crate::help;
use crate::hunting::{HuntOptions, hunt_asked};
use crate::watching::{WatchOptions, replay_asked, watch_asked};
use clap::error::ErrorKind;
use clap::{Arg, ArgMatches, Command, Error};
use std::alloc::{AllocError, Global};

/// The most frames that one run may be asked for.
pub(crate) const MOST_FRAMES: i64 = 36_000;

/// A version of certificates that one can be upgraded to.
#[derive(Clone, Copy, Debug, PartialEq, Eq)]
pub enum TargetVersion {
    Two,
    Three,
    Four,
}

/// What the program is asked to do.
#[derive(Clone, Copy, Debug, PartialEq, Eq)]
pub enum Task<'a> {
    /// The verdict on the cartridge and the certificate that the program brings along.
    Stored,
    /// The verdict on these two files.
    Verify {
        rom: &'a str,
        cert: &'a str,
    },
    /// The line on this cartridge's header.
    Header {
        rom: &'a str,
    },
    /// The lines of this certificate.
    Show {
        cert: &'a str,
    },
    /// This certificate in this version.
    Upgrade {
        cert: &'a str,
        to: TargetVersion,
    },
    /// A run of so many frames of this cartridge, with the keys of this script.
    Run {
        rom: &'a str,
        script: &'a str,
        frames: u32,
    },
    /// The same, watched for faults.
    Watch {
        rom: &'a str,
        script: &'a str,
        frames: u32,
        options: WatchOptions<'a>,
    },
    /// A list of events that is played on this cartridge.
    Replay {
        rom: &'a str,
        events: &'a str,
        options: WatchOptions<'a>,
    },
    /// A search of this cartridge for keys, or events, that lead to a fault.
    Hunt {
        rom: &'a str,
        options: HuntOptions<'a>,
    },
}

/// An argument that names a file.
fn file_arg<'a>(alloc: Global, id: &'a str, value_name: &'a str, help: &'a str) -> Arg<'a>
    ensures rule { rule_of result ≡ CommandLine.file_rule id.now }
    ensures local { result.global ≡ false }
{
    Arg::new(alloc, id)
        .value_name(value_name)
        .help(help)
        .required(true)
}

/// The argument that names the cartridge's file.
fn rom_arg<'a>(alloc: Global) -> Arg<'a>
    ensures rule { rule_of result ≡ CommandLine.file_rule (codes "rom") }
    ensures local { result.global ≡ false }
{
    file_arg(alloc, "rom", "ROM", "The cartridge's file")
}

/// The argument that names the certificate's file.
fn cert_arg<'a>(alloc: Global) -> Arg<'a>
    ensures rule { rule_of result ≡ CommandLine.file_rule (codes "cert") }
    ensures local { result.global ≡ false }
{
    file_arg(alloc, "cert", "CERT", "The certificate's file")
}

/// The argument that says how many frames to run.
fn frames_arg<'a>(alloc: Global) -> Arg<'a>
    ensures rule { rule_of result ≡ CommandLine.frames_rule (codes "frames") }
    ensures local { result.global ≡ false }
{
    Arg::new(alloc, "frames")
        .value_name("FRAMES")
        .help("How many frames to run, at most 36000")
        .required(true)
        .value_parser(clap::value_parser!(u32).range(0..=MOST_FRAMES))
}

/// A command with its texts, and a file as its first argument.
fn file_command<'a>(
    alloc: Global,
    name: &'a str,
    about: &'a str,
    below: &'a str,
    file: Arg<'a>,
) -> Result<Command<'a>, AllocError>
    requires local { file.global ≡ false }
    ensures { CommandLine.Makes result (CommandLine.command_app name.now (rule_of file.entry ∷ [])) }
{
    Command::new(alloc, name)
        .about(about)
        .after_help(below)
        .arg(file)
}

/// A command with one more argument, where it could be built so far.
fn with_arg<'a>(
    command: Result<Command<'a>, AllocError>,
    arg: Arg<'a>,
) -> Result<Command<'a>, AllocError>
    requires local { arg.global ≡ false }
    ensures { (app : App) → CommandLine.Makes command.entry app → CommandLine.Makes result (with_rule app (rule_of arg.entry)) }
{
    command?.arg(arg)
}

/// A command with another usage line, where it could be built so far.
fn with_usage<'a>(
    command: Result<Command<'a>, AllocError>,
    usage: &'a str,
) -> Result<Command<'a>, AllocError>
    ensures { (app : App) → CommandLine.Makes command.entry app → CommandLine.Makes result app }
{
    Ok(command?.override_usage(usage))
}

/// The command `verify`.
fn verify_command<'a>(alloc: Global) -> Result<Command<'a>, AllocError>
    ensures { CommandLine.Makes result CommandLine.verify_app }
{
    let command = file_command(
        alloc,
        "verify",
        "Checks a cartridge against its certificate",
        help::VERIFY,
        rom_arg(alloc),
    );
    with_arg(command, cert_arg(alloc))
}

/// The command `header`.
fn header_command<'a>(alloc: Global) -> Result<Command<'a>, AllocError>
    ensures { CommandLine.Makes result CommandLine.header_app }
{
    file_command(
        alloc,
        "header",
        "Prints what a cartridge's header says",
        help::HEADER,
        rom_arg(alloc),
    )
}

/// The command `show`.
fn show_command<'a>(alloc: Global) -> Result<Command<'a>, AllocError>
    ensures { CommandLine.Makes result CommandLine.show_app }
{
    file_command(
        alloc,
        "show",
        "Prints what a certificate claims, line by line",
        help::SHOW,
        cert_arg(alloc),
    )
}

/// The command `upgrade`.
fn upgrade_command<'a>(alloc: Global) -> Result<Command<'a>, AllocError>
    ensures { CommandLine.Makes result CommandLine.upgrade_app }
{
    let command = file_command(
        alloc,
        "upgrade",
        "Writes a certificate in version 2, 3 or 4 of its format",
        help::UPGRADE,
        cert_arg(alloc),
    );
    with_usage(command, "gulmyrek upgrade [--to 2|3|4] <CERT>")
}

/// A command that plays: its cartridge, its script and its frames.
fn script_command<'a>(
    alloc: Global,
    name: &'a str,
    about: &'a str,
    below: &'a str,
) -> Result<Command<'a>, AllocError>
    ensures { CommandLine.Makes result (CommandLine.command_app name.now CommandLine.run_rules) }
{
    let command = file_command(alloc, name, about, below, rom_arg(alloc));
    let script = file_arg(
        alloc,
        "script",
        "SCRIPT",
        "The file of the keys, a byte for each frame",
    );
    with_arg(with_arg(command, script), frames_arg(alloc))
}

/// The command `run`.
fn run_command<'a>(alloc: Global) -> Result<Command<'a>, AllocError>
    ensures { CommandLine.Makes result CommandLine.run_app }
{
    script_command(
        alloc,
        "run",
        "Runs a cartridge and prints its last picture",
        help::RUN,
    )
}

/// The command `watch`.
fn watch_command<'a>(alloc: Global) -> Result<Command<'a>, AllocError>
    ensures { CommandLine.Makes result CommandLine.watch_app }
{
    let command = script_command(
        alloc,
        "watch",
        "Runs a cartridge and stops at the first fault",
        help::WATCH,
    );
    with_usage(
        command,
        "gulmyrek watch <ROM> (<SCRIPT> <FRAMES> | --events FILE) [--stack FIRST..LAST] [--cert CERT] [--sym FILE]",
    )
}

/// The command `hunt`.
fn hunt_command<'a>(alloc: Global) -> Result<Command<'a>, AllocError>
    ensures { CommandLine.Makes result CommandLine.hunt_app }
{
    let command = file_command(
        alloc,
        "hunt",
        "Looks for keys that lead a cartridge to a fault",
        help::HUNT,
        rom_arg(alloc),
    );
    with_usage(
        command,
        "gulmyrek hunt <ROM> [--any-timing] [--frames N] [--seconds N] [--seed N] [--stack FIRST..LAST] [--keys OUT | --events OUT] [--sym FILE]",
    )
}

/// The program's own words, with no command yet.
fn plain_command<'a>(alloc: Global) -> Result<Command<'a>, AllocError>
    ensures { CommandLine.Makes result CommandLine.plain_app }
{
    Command::new(alloc, "gulmyrek")
        .about("Gulmyrek checks Game Boy cartridges against certificates, and runs cartridges")
        .after_help(help::PROGRAM)
        .version("0.5.0")
        .no_binary_name(true)
        .subcommand_required(true)
        .bin_name("gulmyrek")
}

/// The program with one more command, where both could be built.
///
/// A function of its own, since a command that stays alive across a `?` is costly to prove.
fn with_command<'a>(
    program: Result<Command<'a>, AllocError>,
    command: Result<Command<'a>, AllocError>,
) -> Result<Command<'a>, AllocError>
    ensures { (whole part : App) → CommandLine.Makes program.entry whole → CommandLine.Makes command.entry part → CommandLine.Makes result (with_subcommand whole part.top) }
{
    program?.subcommand(command?)
}

/// The program's command line.
fn program_command<'a>(alloc: Global) -> Result<Command<'a>, AllocError>
    ensures { CommandLine.Makes result CommandLine.program_app }
{
    let program = with_command(plain_command(alloc), verify_command(alloc));
    let program = with_command(program, header_command(alloc));
    let program = with_command(program, show_command(alloc));
    let program = with_command(program, upgrade_command(alloc));
    let program = with_command(program, run_command(alloc));
    let program = with_command(program, watch_command(alloc));
    with_command(program, hunt_command(alloc))
}

/// What the program's command line makes of the words.
fn matches_of<'a>(alloc: Global, words: &'a [&'a str]) -> Result<ArgMatches<'a>, Error>
    ensures some { IfOk result (λ matches. has_subcommand matches ≡ true) }
    ensures matches { IfOk result (HasMatchesOf CommandLine.program_app (map (λ word. word.now) words.now)) }
    ensures kinds { is_simple_and_free CommandLine.program_app ≡ true → FailsBy (fault_of CommandLine.program_app (map (λ word. word.now) words.now)) result }
{
    program_command(alloc)?.try_get_matches_from(words)
}

/// The value of an argument that has to be there.
fn value<'a>(matches: &ArgMatches<'a>, id: &str) -> &'a str
    requires present { is_some (first_value (found_of matches.now) id.now) ≡ true }
    ensures { first_value (found_of matches.now) id.now ≡ Some result.now }
{
    let Some(text) = matches.get_str(id) else {
        unreachable!()
    };
    text
}

/// The version that a word names.
fn version_named(word: &str) -> Option<TargetVersion>
    ensures some { IfSome result (λ version. word.now ≡ Words.version_word version) }
    ensures all { (version : TargetVersion) → word.now ≡ Words.version_word version → is_some result ≡ true }
{
    match word {
        "2" => Some(TargetVersion::Two),
        "3" => Some(TargetVersion::Three),
        "4" => Some(TargetVersion::Four),
        _ => None,
    }
}

/// Whether a word may name a file: one that begins with a hyphen does only where it is no more than that.
pub(crate) fn is_file(word: &str) -> bool
    ensures { result ≡ Words.is_file word.now }
{
    word == "-" || word.is_empty() || word.as_bytes()[0] != b'-'
}

/// The upgrade that the words `upgrade --to VERSION CERT` ask for, in this order. They are read here: `clap` knows no version.
fn upgrade_asked<'a>(words: &'a [&'a str]) -> Option<Task<'a>>
    ensures some { IfSome result (Words.StandFor (map (λ word. word.now) words.now)) }
    ensures all { (to : TargetVersion) (cert : List ℕ) → Words.IsUpgradeTo (map (λ word. word.now) words.now) to cert → is_some result ≡ true }
{
    if words.len() != 4 || words[0] != "upgrade" || words[1] != "--to" || !is_file(words[3]) {
        return None;
    }
    let to = version_named(words[2])?;
    Some(Task::Upgrade { cert: words[3], to })
}

/// What the words after the program's name ask for. No word asks for the stored cartridge.
pub fn read_words<'a>(alloc: Global, words: &'a [&'a str]) -> Result<Task<'a>, Error>
    ensures stands { IfOk result (λ task. Words.StandFor (map (λ word. word.now) words.now) task) }
    ensures stored { words.now ≡ [] → IsOk result }
    ensures verify { (rom cert : List ℕ) → map (λ word. word.now) words.now ≡ codes "verify" ∷ rom ∷ cert ∷ []
        → Words.begins_with_hyphen rom ≡ false → Words.begins_with_hyphen cert ≡ false
        → IfErr result (λ e. kind_of e ≡ ErrorKind.OutOfMemory) }
    ensures header { (rom : List ℕ) → map (λ word. word.now) words.now ≡ codes "header" ∷ rom ∷ []
        → Words.begins_with_hyphen rom ≡ false
        → IfErr result (λ e. kind_of e ≡ ErrorKind.OutOfMemory) }
    ensures show { (cert : List ℕ) → map (λ word. word.now) words.now ≡ codes "show" ∷ cert ∷ []
        → Words.begins_with_hyphen cert ≡ false
        → IfErr result (λ e. kind_of e ≡ ErrorKind.OutOfMemory) }
    ensures upgrade { (cert : List ℕ) → map (λ word. word.now) words.now ≡ codes "upgrade" ∷ cert ∷ []
        → Words.begins_with_hyphen cert ≡ false
        → IfErr result (λ e. kind_of e ≡ ErrorKind.OutOfMemory) }
    ensures upgrade_to { (to : TargetVersion) (cert : List ℕ) → Words.IsUpgradeTo (map (λ word. word.now) words.now) to cert → IsOk result }
    ensures run { (rom script frames : List ℕ) (n : ℕ) → map (λ word. word.now) words.now ≡ codes "run" ∷ rom ∷ script ∷ frames ∷ []
        → Words.begins_with_hyphen rom ≡ false → Words.begins_with_hyphen script ≡ false
        → Words.begins_with_hyphen frames ≡ false → Words.IsFrames frames n
        → IfErr result (λ e. kind_of e ≡ ErrorKind.OutOfMemory) }
    ensures run_decimal { (rom script : List ℕ) (n : ℕ) → map (λ word. word.now) words.now ≡ codes "run" ∷ rom ∷ script ∷ decimal n ∷ []
        → Words.begins_with_hyphen rom ≡ false → Words.begins_with_hyphen script ≡ false → n ≤ 36000
        → IfErr result (λ e. kind_of e ≡ ErrorKind.OutOfMemory) }
    ensures watch { (rom script : List ℕ) (n : ℕ) (options : List (List ℕ)) → map (λ word. word.now) words.now ≡ codes "watch" ∷ rom ∷ script ∷ decimal n ∷ options
        → Words.is_file rom ≡ true → Words.is_file script ≡ true → n ≤ 36000 → Words.are_options_without_events (Words.options_in options) ≡ true → IsOk result }
    ensures replay { (rom : List ℕ) (options : List (List ℕ)) → map (λ word. word.now) words.now ≡ codes "watch" ∷ rom ∷ options
        → Words.is_file rom ≡ true → Words.are_options_with_events (Words.options_in options) ≡ true → IsOk result }
    ensures hunt { (rom : List ℕ) (options : List (List ℕ)) → map (λ word. word.now) words.now ≡ codes "hunt" ∷ rom ∷ options
        → Words.is_file rom ≡ true → is_some (HuntWords.hunt_options_in options) ≡ true → IsOk result }
{
    if words.is_empty() {
        return Ok(Task::Stored);
    }
    if let Some(task) = upgrade_asked(words) {
        return Ok(task);
    }
    if let Some(task) = watch_asked(words) {
        return Ok(task);
    }
    if let Some(task) = replay_asked(words) {
        return Ok(task);
    }
    if let Some(task) = hunt_asked(words) {
        return Ok(task);
    }
    let matches = matches_of(alloc, words)?;
    let Some((name, arguments)) = matches.subcommand() else {
        unreachable!()
    };
    match name {
        "verify" => {
            let rom = value(arguments, "rom");
            let cert = value(arguments, "cert");
            Ok(Task::Verify { rom, cert })
        }
        "header" => {
            let rom = value(arguments, "rom");
            Ok(Task::Header { rom })
        }
        "show" => {
            let cert = value(arguments, "cert");
            Ok(Task::Show { cert })
        }
        "upgrade" => {
            let cert = value(arguments, "cert");
            Ok(Task::Upgrade {
                cert,
                to: TargetVersion::Two,
            })
        }
        "run" => {
            let rom = value(arguments, "rom");
            let script = value(arguments, "script");
            let Some(frames) = arguments.get_one::<u32>("frames") else {
                unreachable!()
            };
            Ok(Task::Run {
                rom,
                script,
                frames,
            })
        }
        "watch" => {
            let rom = value(arguments, "rom");
            let script = value(arguments, "script");
            let Some(frames) = arguments.get_one::<u32>("frames") else {
                unreachable!()
            };
            Ok(Task::Watch {
                rom,
                script,
                frames,
                options: WatchOptions::none(),
            })
        }
        "hunt" => {
            let rom = value(arguments, "rom");
            Ok(Task::Hunt {
                rom,
                options: HuntOptions::none(),
            })
        }
        _ => unreachable!(),
    }
}
