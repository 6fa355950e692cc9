//! The lines of runs that are watched for faults.

ghost use Rattle.std.specs.Prelude.{◌≡◌};
ghost use Rattle.gb_witness.specs.Line.{fault_text, no_fault_text};

use crate::fault::lowest_fault;
use gb_ops::machine::{CodePlace, Faults};
use gb_printed::push_bank;
use gb_text::line::Line;

/// What a run is counted in: frames of a script of keys, or the machine's events.
#[derive(Clone, Copy, Debug, PartialEq, Eq)]
pub enum CountedIn {
    Frame,
    Event,
}

/// The line of an event with faults: the lowest of them, when it came, and where the processor was before it.
pub fn fault_line(faults: Faults, counted: CountedIn, number: u64, place: CodePlace) -> Line
    ensures { result ≡ fault_text faults counted number place }
{
    let mut line = Line::new();
    line.push_text(b"FAULT F");
    line.push_number(u64::from(lowest_fault(faults).number()));
    line.push_text(match counted {
        CountedIn::Frame => b" frame ",
        CountedIn::Event => b" event ",
    });
    line.push_number(number);
    line.push_text(b" pc ");
    line.push_word(place.address);
    line.push_text(b" bank ");
    push_bank(&mut line, place.bank);
    line.end();
    line
}

/// The line of a search that found no fault, with how much it played.
pub fn no_fault_line(counted: CountedIn, number: u64) -> Line
    ensures { result ≡ no_fault_text counted number }
{
    let mut line = Line::new();
    line.push_text(match counted {
        CountedIn::Frame => b"NO FAULT frames ",
        CountedIn::Event => b"NO FAULT events ",
    });
    line.push_number(number);
    line.end();
    line
}
