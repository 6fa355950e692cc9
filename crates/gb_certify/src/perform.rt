//! What becomes of the words.

use crate::compare::{read_before, work_with_older};
use crate::crash::is_keys_file;
use crate::files::is_missing;
use crate::hunting::hunt_seconds;
use crate::making::make_file;
use crate::messages::{PROGRAM, tell_color};
use crate::reading::{explain_file, list_file};
use crate::report::report_file;
use crate::words::{CertifyTask, Work, read_words};
use gb_command_line::messages::tell_memory;
use gb_command_line::status::Status;
use gb_command_line::symbols::{read_symbols, tell_symbols};
use gb_command_line::words::{explain, tell_words, words_of};
use gb_command_line::{Trouble, is_input, read_cartridge};
use gb_page::{Older, SymbolFault, Symbols};
use std::alloc::{AllocError, Global};
use std::io::Input;
use std::rt::{Clock, Env, Files};

/// The names of the older files.
fn names_before<'a>(task: &CertifyTask<'a>) -> [Option<&'a str>; 3] {
    match task.before {
        Some(before) => [Some(before.cert), before.rom, before.symbols],
        None => [None, None, None],
    }
}

/// How many of some names are standard input.
fn inputs_among(names: &[Option<&str>]) -> usize {
    names.iter().flatten().filter(|name| is_input(name)).count()
}

/// How many of the files are standard input, which can be read only once.
fn inputs(task: &CertifyTask<'_>) -> usize {
    let names = [Some(task.rom), Some(task.cert), task.symbols, task.lines];
    inputs_among(&names).saturating_add(inputs_among(&names_before(task)))
}

/// Whether the older cartridge has this name.
fn is_old_cartridge(task: &CertifyTask<'_>, name: &str) -> bool {
    match task.before {
        Some(before) => before.rom == Some(name),
        None => false,
    }
}

/// What is wrong with the name that the file of a crash's keys gets, if something is.
fn wrong_keys(task: &CertifyTask<'_>, is_shown: bool) -> Option<&'static str> {
    if hunt_seconds(task, is_shown) == 0 {
        return None;
    }
    match task.work {
        Work::Report(name) if is_keys_file(task.cert, name) => {
            Some("--report and --hunt can't write the same file")
        }
        Work::Make | Work::Report(_) if reads_keys_file(task) => {
            Some("--hunt writes a crash's keys, and refuses to overwrite a file that certify reads")
        }
        Work::Make | Work::Report(_) | Work::Explain | Work::List => None,
    }
}

/// Whether a file is read that has the name of the file of a crash's keys.
fn reads_keys_file(task: &CertifyTask<'_>) -> bool {
    let [older, older_rom, older_symbols] = names_before(task);
    let names = [
        Some(task.rom),
        task.symbols,
        task.lines,
        older,
        older_rom,
        older_symbols,
    ];
    names
        .iter()
        .flatten()
        .any(|name| is_keys_file(task.cert, name))
}

/// What is wrong with the name of the file that is to be written, if something is.
fn wrong_output(task: &CertifyTask<'_>) -> Option<&'static str> {
    match task.work {
        Work::Make if is_input(task.cert) => {
            Some("certify writes CERT, so it can't be -; use ./- for a file named -")
        }
        Work::Make if task.rom == task.cert => {
            Some("certify writes CERT, and refuses to overwrite the ROM")
        }
        Work::Make if is_old_cartridge(task, task.cert) => {
            Some("certify writes CERT, and refuses to overwrite the older ROM")
        }
        Work::Report(name) if is_input(name) => {
            Some("--report writes FILE, so it can't be -; use ./- for a file named -")
        }
        Work::Report(name) if is_read(task, name) => {
            Some("--report writes FILE, and refuses to overwrite a file that it reads")
        }
        _ => None,
    }
}

/// Whether a file of this name is read.
fn is_read(task: &CertifyTask<'_>, name: &str) -> bool {
    task.rom == name
        || task.cert == name
        || task.symbols == Some(name)
        || task.lines == Some(name)
        || names_before(task).contains(&Some(name))
}

/// Does what a task says, with the bytes of its cartridge, its symbols, and an older certificate, if there is one.
pub fn work<R: Print + Eprint + Input + Files + Clock + AllocGlobal>(
    rt: &R,
    task: &CertifyTask<'_>,
    bytes: &[u8],
    symbols: &Symbols<'_>,
    older: Option<&Older<'_, '_, '_, '_>>,
    is_shown: bool,
) -> Result<Status, Trouble> {
    match task.work {
        Work::Make => make_file(rt, task, bytes, symbols, older, is_shown),
        Work::Explain => explain_file(rt, task, bytes, symbols, is_shown),
        Work::List => list_file(rt, task, bytes, symbols),
        Work::Report(name) => report_file(rt, task, name, bytes, symbols, older, is_shown),
    }
}

/// Does the task; the older certificate isn't read yet.
fn work_on<R: Print + Eprint + Input + Files + Clock + AllocGlobal>(
    rt: &R,
    task: &CertifyTask<'_>,
    bytes: &[u8],
    symbols: &Symbols<'_>,
    is_shown: bool,
) -> Result<Status, Trouble> {
    match task.before {
        Some(before) => {
            let files = read_before(rt, &before)?;
            work_with_older(rt, task, &before, &files, bytes, symbols, is_shown)
        }
        None => work(rt, task, bytes, symbols, None, is_shown),
    }
}

/// The name of a file in the folder of another one.
fn name_beside(alloc: Global, other: &str, stem: &str, ending: &str) -> Result<String, AllocError> {
    match other.rsplit_once('/') {
        Some((folder, _)) => format!(in alloc; "{folder}/{stem}{ending}"),
        None => format!(in alloc; "{stem}{ending}"),
    }
}

/// Whether the source of a module in the folder of a file ends in `.s`.
fn is_source_s<R: Files + AllocGlobal>(
    rt: &R,
    name: &str,
    module: &str,
) -> Result<bool, AllocError> {
    let source = name_beside(rt.alloc(), name, module, ".s")?;
    let other = name_beside(rt.alloc(), name, module, ".asm")?;
    Ok(!is_missing(rt, source.as_str()) && is_missing(rt, other.as_str()))
}

/// Reads the lines of sources, if the task names a file; the fault, if it has one.
fn add_lines<'a, R: Files + AllocGlobal>(
    rt: &R,
    task: &CertifyTask<'_>,
    lines: &'a [u8],
    symbols: &mut Symbols<'a>,
) -> Result<Option<SymbolFault>, Trouble> {
    let Some(name) = task.lines else {
        return Ok(None);
    };
    if let Err(fault) = symbols.add_lines(rt.alloc(), lines) {
        return Ok(Some(fault));
    }
    if let Some(module) = symbols.module()
        && is_source_s(rt, name, module)?
    {
        symbols.end_in_s();
    }
    Ok(None)
}

/// Does what a task says; `is_shown` says whether a person sees standard error.
fn perform<R: Print + Eprint + Input + Files + Clock + AllocGlobal>(
    rt: &R,
    task: &CertifyTask<'_>,
    is_shown: bool,
) -> Result<Status, Trouble> {
    if inputs(task) > 1 {
        return Ok(tell_words(rt, "only one file can be - (standard input)"));
    }
    if let Some(text) = wrong_output(task).or(wrong_keys(task, is_shown)) {
        return Ok(tell_words(rt, text));
    }
    let bytes = read_cartridge(rt, PROGRAM, task.rom)?;
    let text = read_symbols(rt, PROGRAM, task.symbols)?;
    let lines = read_symbols(rt, PROGRAM, task.lines)?;
    let mut symbols = match Symbols::parse(rt.alloc(), &text) {
        Ok(symbols) => symbols,
        Err(fault) => return tell_fault(rt, task.symbols, fault),
    };
    if let Some(fault) = add_lines(rt, task, &lines, &mut symbols)? {
        return tell_fault(rt, task.lines, fault);
    }
    tell_color(rt, task.rom, &bytes);
    let done = work_on(rt, task, &bytes, &symbols, is_shown);
    if let Err(Trouble::Memory) = done {
        tell_memory(rt, PROGRAM, task.rom);
    }
    done
}

/// Says what is wrong with a file of symbols or of lines; where none is named, memory ran out.
fn tell_fault<R: Eprint>(
    rt: &R,
    name: Option<&str>,
    fault: SymbolFault,
) -> Result<Status, Trouble> {
    match name {
        Some(name) => tell_symbols(rt, PROGRAM, name, fault),
        None => Err(Trouble::Memory),
    }
}

/// Runs the program on the words after its name.
pub fn start<R: Print + Eprint + Input + Files + Env + Clock + AllocGlobal>(
    rt: &R,
    is_shown: bool,
) -> Result<Status, Trouble> {
    let Some(words) = words_of(rt)? else {
        return Ok(tell_words(
            rt,
            "an argument isn't UTF-8; pass such a ROM on standard input: `certify - game.cert < FILE`",
        ));
    };
    let mut texts = Vec::new(rt.alloc());
    for word in &words {
        texts.push(word.as_str())?;
    }
    match read_words(rt.alloc(), &texts) {
        Ok(task) => perform(rt, &task, is_shown),
        Err(error) => Ok(explain(rt, PROGRAM, &error)),
    }
}
