//! The program `certify`, which is all in gb_certify.
#![tactic(auto)]

use std::io::IsTerminal;
use std::process::ExitCode;

fn main(rt: HostRuntime) -> ExitCode {
    gb_certify::run(&rt, rt.stderr().is_terminal())
}
