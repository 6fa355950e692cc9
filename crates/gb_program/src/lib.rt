//! The program: its words, files and statuses, and its messages.
//!
//! `run` does what the words ask for; the lines that it prints are gb_verify's and gb_printed's, whose contracts say what they
//! are. `status` says which status each outcome has. `fourth` writes a certificate in version 4 of its format. Read `perform`
//! first, then `status`, and `fourth` with `Fourth`; files are read by gb_files, and what `certify` does alike is
//! gb_command_line's.
#![tactic(auto)]

mod fourth;
mod fourth_order;
mod fourth_spelled;
mod fourth_told;
mod hunting;
mod inputs;
mod messages;
mod perform;
mod progress;
mod replaying;
mod status;
mod stored;
mod storming;
mod versions;
mod watching;

pub use fourth::upgrade_whole;
use gb_command_line::status::exit_code;
use perform::start;
use std::io::Input;
use std::process::ExitCode;
use std::rt::{Clock, Env, Files};

/// Runs the program on the words after its name, and answers its status. `is_shown` says whether a person sees standard
/// error as it comes.
pub fn run<R: Print + Eprint + Input + Files + Env + Clock + AllocGlobal>(
    rt: &R,
    is_shown: bool,
) -> ExitCode {
    exit_code(rt, start(rt, is_shown))
}
