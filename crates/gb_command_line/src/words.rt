//! The words after a program's name, and what is said where they can't be read.

ghost use Rattle.std.specs.Prelude.{◌≡◌};
ghost use Rattle.gb_command_line.specs.declared.status.Status.TheVariants as status;

use crate::messages::{complain, tell_output};
use crate::status::Status;
use clap::Error;
use clap::error::ErrorKind;
use gb_files::Trouble;
use std::rt::Env;
use std::{env, io};

/// The words after the program's name; none where one of them is not UTF-8.
///
/// # Errors
///
/// Trouble where memory ran out.
pub fn words_of<R: Env + AllocGlobal>(rt: &R) -> Result<Option<Vec<String>>, Trouble> {
    let args = match env::args(rt) {
        Ok(args) => args,
        Err(error) if error.kind() == io::ErrorKind::InvalidData => return Ok(None),
        Err(error) => return Err(Trouble::from(error)),
    };
    let mut words = Vec::new(rt.alloc());
    for word in args.skip(1) {
        words.push(word)?;
    }
    Ok(Some(words))
}

/// Says in a line what is wrong with the words.
pub fn tell_words<R: Eprint>(rt: &R, text: &str) -> Status
    ensures { result ≡ status.Unreadable }
{
    let _ = eprintln!(rt; "error: {text}\n\nFor more information, try '--help'.");
    Status::Unreadable
}

/// Prints what `clap` says is wrong with the words, or the help that was asked for.
pub fn explain<R: Print + Eprint>(rt: &R, program: &str, error: &Error) -> Status {
    if error.kind() == ErrorKind::OutOfMemory {
        let _ = eprintln!(rt; "{program}: not enough memory to read the command line");
        return complain(rt, Trouble::Memory);
    }
    if error.use_stderr() {
        let _ = eprint!(rt; "{error}");
        return Status::Unreadable;
    }
    match print!(rt; "{error}") {
        Ok(()) => Status::Done,
        Err(_) => tell_output(rt, program),
    }
}
