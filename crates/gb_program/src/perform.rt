//! The commands, and what becomes of the words.

use crate::hunting::hunt;
use crate::inputs::has_input_twice;
use crate::messages::{PROGRAM, tell_refusal};
use crate::progress::FramesShown;
use crate::replaying::replay;
use crate::status::{header_status, run_status, show_status, upgrade_status};
use crate::stored;
use crate::versions::upgrade_in;
use crate::watching::{WatchedFiles, watch};
use gb_command_line::messages::{
    FileNames, tell_cartridge, tell_fault, tell_memory, tell_output, verify,
};
use gb_command_line::status::Status;
use gb_command_line::words::{explain, tell_words, words_of};
use gb_command_line::{Plain, Trouble, read_cartridge, read_certificate, read_file};
use gb_events::{RunOutcome, header_bytes, run_bytes, show_bytes};
use gb_words::{TargetVersion, Task, read_words};
use std::io::{self, Input};
use std::rt::{Clock, Env, Files};

/// The command `verify`. Where the cartridge can't be read, the line says nothing of the certificate.
fn verify_files<R: Print + Eprint + Input + Files + AllocGlobal>(
    rt: &R,
    rom: &str,
    cert: &str,
) -> Result<Status, Trouble> {
    let rom_bytes = read_cartridge(rt, PROGRAM, rom)?;
    let bytes = read_certificate(rt, PROGRAM, cert)?;
    let names = FileNames { rom, cert };
    let status = verify(rt, PROGRAM, names, &rom_bytes, &bytes);
    if status == Status::Refused {
        tell_refusal(rt, cert, &rom_bytes, &bytes);
    }
    Ok(status)
}

/// The command `header`.
fn header<R: Print + Eprint + Input + Files + AllocGlobal>(
    rt: &R,
    rom: &str,
) -> Result<Status, Trouble> {
    let bytes = read_cartridge(rt, PROGRAM, rom)?;
    let mut out = Plain::new(io::writer(rt));
    let fault = match header_bytes(&bytes, &mut out) {
        Ok(fault) => fault,
        Err(_) => return Ok(tell_output(rt, PROGRAM)),
    };
    if let Some(fault) = fault {
        tell_cartridge(rt, PROGRAM, rom, fault);
    }
    Ok(header_status(fault))
}

/// Says why a certificate can't be read, or that there isn't enough memory for it.
pub fn tell_certificate<R: Eprint + AllocGlobal>(rt: &R, name: &str, bytes: &[u8], status: Status) {
    match status {
        Status::Unreadable => tell_fault(rt, PROGRAM, name, bytes),
        Status::Failed => tell_memory(rt, PROGRAM, name),
        Status::Done | Status::Refused => {}
    }
}

/// The command `show`.
fn show<R: Print + Eprint + Input + Files + AllocGlobal>(
    rt: &R,
    cert: &str,
) -> Result<Status, Trouble> {
    let bytes = read_certificate(rt, PROGRAM, cert)?;
    let mut out = Plain::new(io::writer(rt));
    let status = match show_bytes(rt.alloc(), &bytes, &mut out) {
        Ok(fault) => show_status(fault),
        Err(_) => return Ok(tell_output(rt, PROGRAM)),
    };
    tell_certificate(rt, cert, &bytes, status);
    Ok(status)
}

/// The command `upgrade`.
fn upgrade<R: Print + Eprint + Input + Files + AllocGlobal>(
    rt: &R,
    cert: &str,
    to: TargetVersion,
) -> Result<Status, Trouble> {
    let bytes = read_certificate(rt, PROGRAM, cert)?;
    let mut out = Plain::new(io::writer(rt));
    let status = match upgrade_in(rt.alloc(), &bytes, to, &mut out) {
        Ok(upgraded) => upgrade_status(upgraded),
        Err(_) => return Ok(tell_output(rt, PROGRAM)),
    };
    tell_certificate(rt, cert, &bytes, status);
    Ok(status)
}

/// The command `run`; of a script no more is read than there are frames.
fn run<R: Print + Eprint + Input + Files + AllocGlobal>(
    rt: &R,
    rom: &str,
    script: &str,
    frames: u32,
    is_shown: bool,
) -> Result<Status, Trouble> {
    let bytes = read_cartridge(rt, PROGRAM, rom)?;
    let script = read_file(rt, PROGRAM, script, u64::from(frames))?;
    let mut out = Plain::new(io::writer(rt));
    let mut progress = FramesShown::new(rt, is_shown);
    let outcome = match run_bytes(rt.alloc(), &bytes, &script, frames, &mut out, &mut progress) {
        Ok(outcome) => outcome,
        Err(_) => return Ok(tell_output(rt, PROGRAM)),
    };
    match outcome {
        RunOutcome::NoMemory => tell_memory(rt, PROGRAM, rom),
        RunOutcome::NoCartridge(fault) => tell_cartridge(rt, PROGRAM, rom, fault),
        RunOutcome::Ended(_) => {}
    }
    run_status(outcome)
}

/// No command: the cartridge and the certificate that the program brings along.
fn verify_stored<R: Print + Eprint + AllocGlobal>(rt: &R) -> Status {
    let names = FileNames {
        rom: "the built-in cartridge",
        cert: "the built-in certificate",
    };
    verify(
        rt,
        PROGRAM,
        names,
        &stored::cartridge(),
        stored::CERTIFICATE,
    )
}

/// Does what the words ask for; `is_shown` says whether a person sees standard error.
fn perform<R: Print + Eprint + Input + Files + Clock + AllocGlobal>(
    rt: &R,
    words: &[&str],
    is_shown: bool,
) -> Result<Status, Trouble> {
    let task = match read_words(rt.alloc(), words) {
        Ok(task) => task,
        Err(error) => return Ok(explain(rt, PROGRAM, &error)),
    };
    if has_input_twice(&task) {
        return Ok(tell_words(rt, "only one file can be - (standard input)"));
    }
    match task {
        Task::Stored => Ok(verify_stored(rt)),
        Task::Verify { rom, cert } => verify_files(rt, rom, cert),
        Task::Header { rom } => header(rt, rom),
        Task::Show { cert } => show(rt, cert),
        Task::Upgrade { cert, to } => upgrade(rt, cert, to),
        Task::Run {
            rom,
            script,
            frames,
        } => run(rt, rom, script, frames, is_shown),
        Task::Watch {
            rom,
            script,
            frames,
            options,
        } => {
            let files = WatchedFiles {
                rom,
                script,
                frames,
                options,
            };
            watch(rt, &files, is_shown)
        }
        Task::Replay {
            rom,
            events,
            options,
        } => replay(rt, rom, events, &options),
        Task::Hunt { rom, options } => hunt(rt, rom, &options, is_shown),
    }
}

/// Runs the program on the words after its name.
pub fn start<R: Print + Eprint + Input + Files + Env + Clock + AllocGlobal>(
    rt: &R,
    is_shown: bool,
) -> Result<Status, Trouble> {
    let Some(words) = words_of(rt)? else {
        return Ok(tell_words(
            rt,
            "an argument isn't UTF-8; pass such a file on standard input: `gulmyrek header - < FILE`",
        ));
    };
    let mut texts = Vec::new(rt.alloc());
    for word in &words {
        texts.push(word.as_str())?;
    }
    perform(rt, &texts, is_shown)
}
