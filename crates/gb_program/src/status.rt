//! What the program ends with, by command; after a verdict gb_command_line says it.

ghost use Rattle.std.specs.Prelude.{◌≡◌};
ghost use Rattle.gb_program.specs.Status.{header_status, show_status, upgrade_status, run_status, watch_status, replay_status};

use gb_command_line::status::Status;
use gb_command_line::{CertFault, HeaderFault, Trouble, Upgraded};
use gb_events::{Ending, ReplayOutcome, Replayed, RunOutcome, WatchOutcome, Watched};

/// The status of a header's line, or of the fault in its place.
pub fn header_status(fault: Option<HeaderFault>) -> Status
    ensures { result ≡ header_status fault }
{
    match fault {
        None => Status::Done,
        Some(_) => Status::Unreadable,
    }
}

/// The status of a certificate's lines, or of the fault in their place.
pub fn show_status(fault: Option<CertFault>) -> Status
    ensures { result ≡ show_status fault }
{
    match fault {
        None => Status::Done,
        Some(CertFault::Memory) => Status::Failed,
        Some(_) => Status::Unreadable,
    }
}

/// The status of an upgrade.
pub fn upgrade_status(upgraded: Upgraded) -> Status
    ensures { result ≡ upgrade_status upgraded }
{
    match upgraded {
        Upgraded::Written => Status::Done,
        Upgraded::Unreadable => Status::Unreadable,
        Upgraded::NoMemory => Status::Failed,
    }
}

/// The status of a run; where there was no room for it nothing was printed yet.
pub fn run_status(outcome: RunOutcome) -> Result<Status, Trouble>
    ensures { result ≡ run_status outcome }
{
    match outcome {
        RunOutcome::Ended(Ending::Whole) => Ok(Status::Done),
        RunOutcome::Ended(Ending::Locked | Ending::Stopped) => Ok(Status::Refused),
        RunOutcome::NoCartridge(_) => Ok(Status::Unreadable),
        RunOutcome::NoMemory => Err(Trouble::Memory),
    }
}

/// The status of a watched run; where there was no room for it nothing was printed yet.
pub fn watch_status(outcome: WatchOutcome) -> Result<Status, Trouble>
    ensures { result ≡ watch_status outcome }
{
    match outcome {
        WatchOutcome::Told(run) => Ok(match run.watched {
            Watched::Ended(Ending::Whole) => Status::Done,
            Watched::Ended(Ending::Locked | Ending::Stopped) | Watched::Faulted(_) =>
                Status::Refused,
        }),
        WatchOutcome::NoCartridge(_) => Ok(Status::Unreadable),
        WatchOutcome::NoMemory => Err(Trouble::Memory),
    }
}

/// The status of a list of events that was played; where there was no room for it nothing was printed yet.
pub fn replay_status(outcome: ReplayOutcome) -> Result<Status, Trouble>
    ensures { result ≡ replay_status outcome }
{
    match outcome {
        ReplayOutcome::Told(Replayed::Whole(_)) => Ok(Status::Done),
        ReplayOutcome::Told(Replayed::Faulty(_)) => Ok(Status::Refused),
        ReplayOutcome::NoCartridge(_) => Ok(Status::Unreadable),
        ReplayOutcome::NoMemory => Err(Trouble::Memory),
    }
}
