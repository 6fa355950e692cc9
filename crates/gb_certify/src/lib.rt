//! The program `certify`: its words, files and statuses, and what it says to a person.
//!
//! Read `perform` first, then `making` and `reading`; `hunting` looks for a `crash` where no certificate is made. What it makes is trusted no more than any other certificate: the verdict
//! that it prints is gb_verify's. Of the texts nothing is promised.
#![tactic(auto)]

mod compare;
mod crash;
mod files;
mod help;
mod hunting;
mod making;
mod messages;
mod perform;
mod playing;
mod progress;
mod reading;
mod report;
mod words;

use gb_command_line::status::exit_code;
use perform::start;
use std::io::Input;
use std::process::ExitCode;
use std::rt::{Clock, Env, Files};

/// Runs the program on the words after its name, and answers its status. `is_shown` says whether a person sees standard
/// error as it comes.
pub fn run<R: Print + Eprint + Input + Files + Env + Clock + AllocGlobal>(
    rt: &R,
    is_shown: bool,
) -> ExitCode {
    exit_code(rt, start(rt, is_shown))
}
