//! What a program ends with.

ghost use Rattle.std.specs.Prelude.{◌≡◌};
ghost use Rattle.gb_command_line.specs.Status.{verify_status};

use crate::messages::complain;
use gb_explain::Outcome;
use gb_files::Trouble;
use std::process::ExitCode;

/// The statuses that a program ends with.
#[derive(Clone, Copy, PartialEq, Eq)]
pub enum Status {
    /// Accepted, run whole, printed or listed.
    Done = 0,
    /// Refused, locked or stopped, or no certificate could be made.
    Refused = 1,
    /// The input or the words can't be read.
    Unreadable = 2,
    /// Memory or a device failed.
    Failed = 3,
}

/// The status of a verdict.
pub fn verify_status(outcome: Outcome) -> Status
    ensures { result ≡ verify_status outcome }
{
    match outcome {
        Outcome::Accepted => Status::Done,
        Outcome::Refused => Status::Refused,
        Outcome::Unreadable => Status::Unreadable,
        Outcome::NoMemory => Status::Failed,
    }
}

/// The status of a program that ended so; of memory or a device that failed a line is printed first.
pub fn exit_code<R: Print>(rt: &R, ended: Result<Status, Trouble>) -> ExitCode {
    let status = match ended {
        Ok(status) => status,
        Err(trouble) => complain(rt, trouble),
    };
    ExitCode::from(status as u8)
}
