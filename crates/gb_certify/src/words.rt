//! The program's words, read by `clap`.

use crate::help;
use clap::error::ErrorKind;
use clap::{Arg, ArgAction, ArgMatches, Command, Error};
use gb_command_line::messages::FileNames;
use gb_command_line::stack::{WRONG_STACK, region_of};
use gb_ops::machine::Region;
use gb_refine::Edition;
use std::alloc::{AllocError, Global};

/// The most nodes that may be allowed: a certificate of versions 2 and 3 has no more.
const MOST_NODES: i64 = 1_048_576;

/// The most seconds that may be said: a day.
const MOST_SECONDS: i64 = 86_400;

/// The most nodes, where nothing is said.
const NODES: u32 = 400_000;

/// What is to be done with the certificate's file.
#[derive(Clone, Copy, PartialEq, Eq)]
pub enum Work<'a> {
    /// It is made.
    Make,
    /// It is there, and its refusal is explained.
    Explain,
    /// It is there, and its nodes are listed.
    List,
    /// It is there or is made, and a page on it is written into this file.
    Report(&'a str),
}

/// An older certificate, and its cartridge and its symbols, where they are named.
#[derive(Clone, Copy, PartialEq, Eq)]
pub struct OlderBuild<'a> {
    pub cert: &'a str,
    pub rom: Option<&'a str>,
    pub symbols: Option<&'a str>,
}

/// What the program is asked to do.
#[derive(Clone, Copy, PartialEq, Eq)]
pub struct CertifyTask<'a> {
    pub work: Work<'a>,
    pub rom: &'a str,
    pub cert: &'a str,
    pub symbols: Option<&'a str>,
    /// The file of the author's lines.
    pub lines: Option<&'a str>,
    /// With what the certificate is compared.
    pub before: Option<OlderBuild<'a>>,
    pub nodes: u32,
    /// How many seconds the search may take, where the user has said.
    pub seconds: Option<u32>,
    /// How many seconds a hunt for a crash may take, where the user has said.
    pub hunt: Option<u32>,
    pub region: Option<Region>,
    /// The rules by which alone a certificate is sought.
    pub edition: Option<Edition>,
    pub is_json: bool,
}

impl<'a> CertifyTask<'a> {
    /// The names of the cartridge's and of the certificate's file.
    pub fn names(&self) -> FileNames<'a> {
        FileNames {
            rom: self.rom,
            cert: self.cert,
        }
    }
}

/// An argument that names a file.
fn file_arg<'a>(alloc: Global, id: &'a str, value_name: &'a str, text: &'a str) -> Arg<'a> {
    Arg::new(alloc, id)
        .value_name(value_name)
        .help(text)
        .required(true)
}

/// An option with a value.
fn option_arg<'a>(alloc: Global, id: &'a str, value_name: &'a str, text: &'a str) -> Arg<'a> {
    Arg::new(alloc, id)
        .long(id)
        .value_name(value_name)
        .help(text)
}

/// An option without a value.
fn flag_arg<'a>(alloc: Global, id: &'a str, text: &'a str) -> Arg<'a> {
    Arg::new(alloc, id)
        .long(id)
        .help(text)
        .action(ArgAction::SetTrue)
}

/// A command with one more argument, where it could be built so far.
fn with_arg<'a>(
    command: Result<Command<'a>, AllocError>,
    arg: Arg<'a>,
) -> Result<Command<'a>, AllocError> {
    command?.arg(arg)
}

/// The program without its words.
fn plain_command<'a>(alloc: Global) -> Result<Command<'a>, AllocError> {
    Command::new(alloc, "certify")
        .about(
            "Checks that a Game Boy game can't crash by its stack, banks, interrupts or DMA, and makes its certificate",
        )
        .after_help(help::BELOW)
        .version("0.5.0")
        .no_binary_name(true)
        .bin_name("certify")
}

/// The program with its two files.
fn with_files<'a>(alloc: Global) -> Result<Command<'a>, AllocError> {
    let command = plain_command(alloc);
    let command = with_arg(
        command,
        file_arg(alloc, "rom", "ROM", "The game (.gb); certify only reads it"),
    );
    with_arg(
        command,
        file_arg(
            alloc,
            "cert",
            "CERT",
            "The certificate; certify writes it if the game passes",
        ),
    )
}

/// The program with its options that have values.
fn with_options<'a>(alloc: Global) -> Result<Command<'a>, AllocError> {
    let command = with_files(alloc);
    let symbols = option_arg(
        alloc,
        "sym",
        "FILE",
        "Show your labels: RGBDS .sym, SDCC .noi or .map",
    );
    let lines = option_arg(
        alloc,
        "lines",
        "FILE",
        "Show your source lines: SDCC .cdb or .rst",
    );
    let nodes = option_arg(
        alloc,
        "nodes",
        "N",
        "Limit of nodes, at most 1048576; default 400000",
    )
    .value_parser(clap::value_parser!(u32).range(1..=MOST_NODES));
    let seconds = option_arg(
        alloc,
        "seconds",
        "N",
        "Stop the search after N seconds; default: no limit",
    )
    .value_parser(clap::value_parser!(u32).range(1..=MOST_SECONDS));
    let stack = option_arg(
        alloc,
        "stack",
        "FIRST..LAST",
        "Addresses for the stack, as in DF00..DFFF; default: as many as needed below `ld sp`",
    );
    let rules = option_arg(
        alloc,
        "rules",
        "N",
        "Use the rules of version 1, 2, 3 or 4 only; default: 3, then 4, then 1 and 2",
    )
    .value_parser(clap::value_parser!(u32).range(1..=4));
    let report = option_arg(
        alloc,
        "report",
        "FILE",
        "Write a report page (HTML) into FILE; makes CERT first if it doesn't exist",
    );
    let command = with_arg(with_arg(with_arg(command, symbols), lines), nodes);
    let command = with_arg(command, seconds);
    with_arg(with_arg(with_arg(command, stack), rules), report)
}

/// The program with the option for a hunt.
fn with_hunt<'a>(alloc: Global) -> Result<Command<'a>, AllocError> {
    let command = with_options(alloc);
    let hunt = option_arg(
        alloc,
        "hunt",
        "SECONDS",
        "Without a certificate, hunt so long for keys that crash the game; default: 10 on a terminal, else 0",
    )
    .value_parser(clap::value_parser!(u32).range(0..=MOST_SECONDS));
    with_arg(command, hunt)
}

/// The program with the options for an older certificate.
fn with_before<'a>(alloc: Global) -> Result<Command<'a>, AllocError> {
    let command = with_hunt(alloc);
    let compare = option_arg(
        alloc,
        "compare",
        "OLD",
        "Show what changed since the older certificate OLD",
    );
    let rom = option_arg(
        alloc,
        "old-rom",
        "FILE",
        "The older ROM, for the older deepest call chain",
    );
    let symbols = option_arg(
        alloc,
        "old-sym",
        "FILE",
        "The older symbols, to match routines that moved",
    );
    with_arg(with_arg(with_arg(command, compare), rom), symbols)
}

/// The program's command line.
fn program_command<'a>(alloc: Global) -> Result<Command<'a>, AllocError> {
    let command = with_before(alloc);
    let explain = flag_arg(alloc, "explain", "Explain why an existing CERT is refused");
    let list = flag_arg(alloc, "list", "List the nodes of an existing CERT");
    let json = flag_arg(
        alloc,
        "json",
        "Print findings as JSON on standard output; with --report, write JSON into FILE",
    );
    let command = with_arg(with_arg(command, explain), list);
    with_arg(command, json)
}

/// An error with a text of our own.
fn wrong(alloc: Global, text: &str) -> Error {
    match program_command(alloc) {
        Ok(mut command) => match command.error(ErrorKind::ValueValidation, text) {
            Ok(error) => error,
            Err(error) => Error::from(error),
        },
        Err(error) => Error::from(error),
    }
}

/// What the stack's option says.
fn stack_of(alloc: Global, matches: &ArgMatches<'_>) -> Result<Option<Region>, Error> {
    let Some(text) = matches.get_str("stack") else {
        return Ok(None);
    };
    match region_of(text) {
        Some(region) => Ok(Some(region)),
        None => Err(wrong(alloc, WRONG_STACK)),
    }
}

/// By which rules alone a certificate is sought.
fn edition_of(matches: &ArgMatches<'_>) -> Option<Edition> {
    match matches.get_one::<u32>("rules") {
        Some(4) => Some(Edition::Fourth),
        Some(3) => Some(Edition::Third),
        Some(_) => Some(Edition::Early),
        None => None,
    }
}

/// What is to be done with the certificate's file.
fn work_of<'a>(alloc: Global, matches: &ArgMatches<'a>) -> Result<Work<'a>, Error> {
    let is_explained = matches.get_flag("explain");
    let is_listed = matches.get_flag("list");
    match (is_explained, is_listed, matches.get_str("report")) {
        (false, false, None) => Ok(Work::Make),
        (true, false, None) => Ok(Work::Explain),
        (false, true, None) => Ok(Work::List),
        (false, false, Some(name)) => Ok(Work::Report(name)),
        _ => Err(wrong(
            alloc,
            "--explain, --list and --report can't be used together",
        )),
    }
}

/// With what the certificate is compared.
fn before_of<'a>(
    alloc: Global,
    matches: &ArgMatches<'a>,
    work: Work<'a>,
) -> Result<Option<OlderBuild<'a>>, Error> {
    let rom = matches.get_str("old-rom");
    let symbols = matches.get_str("old-sym");
    match (matches.get_str("compare"), work) {
        (Some(cert), Work::Make | Work::Report(_)) => Ok(Some(OlderBuild { cert, rom, symbols })),
        (Some(_), Work::Explain | Work::List) => Err(wrong(
            alloc,
            "--compare can't be used with --explain or --list",
        )),
        (None, _) if rom.is_some() || symbols.is_some() => {
            Err(wrong(alloc, "--old-rom and --old-sym need --compare"))
        }
        (None, _) => Ok(None),
    }
}

/// The seconds of a hunt, where a certificate is made or else there is none.
fn hunt_of(alloc: Global, matches: &ArgMatches<'_>, work: Work<'_>) -> Result<Option<u32>, Error> {
    match (matches.get_one::<u32>("hunt"), work) {
        (Some(_), Work::Explain | Work::List) => Err(wrong(
            alloc,
            "--hunt can't be used with --explain or --list",
        )),
        (hunt, _) => Ok(hunt),
    }
}

/// What the words after the program's name ask for.
pub fn read_words<'a>(alloc: Global, words: &'a [&'a str]) -> Result<CertifyTask<'a>, Error> {
    let matches = program_command(alloc)?.try_get_matches_from(words)?;
    let (Some(rom), Some(cert)) = (matches.get_str("rom"), matches.get_str("cert")) else {
        return Err(wrong(alloc, "ROM and CERT are missing"));
    };
    let nodes = match matches.get_one::<u32>("nodes") {
        Some(nodes) => nodes,
        None => NODES,
    };
    let work = work_of(alloc, &matches)?;
    Ok(CertifyTask {
        work,
        rom,
        cert,
        symbols: matches.get_str("sym"),
        lines: matches.get_str("lines"),
        before: before_of(alloc, &matches, work)?,
        nodes,
        seconds: matches.get_one::<u32>("seconds"),
        hunt: hunt_of(alloc, &matches, work)?,
        region: stack_of(alloc, &matches)?,
        edition: edition_of(&matches),
        is_json: matches.get_flag("json"),
    })
}
