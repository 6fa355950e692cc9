//! The line of a list of events that was played.

ghost use Rattle.std.specs.Prelude.{◌≡◌};
ghost use Rattle.gb_events.specs.Line.{replay_text};

use crate::play::Replayed;
use gb_hunt::{CountedIn, fault_line};
use gb_text::line::Line;

/// The line that says how a list's run ended: `FAULT Fn event N pc AAAA bank BBB`, or `WHOLE events N`.
pub fn replay_line(replayed: Replayed) -> Line
    ensures { result ≡ replay_text replayed }
{
    let number = match replayed {
        Replayed::Faulty(faulty) => {
            return fault_line(faulty.faults, CountedIn::Event, faulty.number, faulty.place);
        }
        Replayed::Whole(number) => number,
    };
    let mut line = Line::new();
    line.push_text(b"WHOLE events ");
    line.push_number(number);
    line.end();
    line
}
