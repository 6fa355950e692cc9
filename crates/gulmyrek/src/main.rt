//! The program `gulmyrek`, which is all in gb_program.
#![tactic(auto)]

use std::io::IsTerminal;
use std::process::ExitCode;

fn main(rt: HostRuntime) -> ExitCode {
    gb_program::run(&rt, rt.stderr().is_terminal())
}
