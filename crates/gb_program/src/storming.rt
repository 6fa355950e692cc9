//! The command `hunt` for events at any timing.

use crate::hunting::{HuntTerms, Hunted, tell_none, write_found};
use crate::messages::PROGRAM;
use crate::progress::HuntShown;
use crate::replaying::{PlayedEvents, replay_played};
use gb_command_line::status::Status;
use gb_command_line::{Rom, Symbols, Trouble, shown_name};
use gb_events::{CountedIn, EventList, Storm, shorten_events, write_events};
use gb_ops::machine::Region;
use std::rt::{Clock, Files};

/// The events of a search, where the words say no seconds.
const EVENTS: u64 = 20_000_000;

/// The most events of a search.
const MOST_EVENTS: u64 = 1_000_000_000_000;

/// The events that are played at most to make the list shorter.
const SHORTENED: u64 = 20_000_000;

/// Writes the file of events.
fn write_list<R: Eprint + Files + AllocGlobal>(
    rt: &R,
    name: &str,
    list: &EventList,
) -> Result<(), Trouble> {
    let mut text = Vec::new(rt.alloc());
    write_events(&mut text, list)?;
    write_found(rt, name, &text)
}

/// Says how a list is played again.
fn tell_again<R: Eprint>(rt: &R, name: &str, region: Region, events: Option<&str>) {
    let name = shown_name(name);
    let Region { first, last } = region;
    let _ = match events {
        Some(events) => eprintln!(rt;
            "{PROGRAM}: {name}: play it again: gulmyrek watch {name} --events {events} --stack {first:04X}..{last:04X}"
        ),
        None => eprintln!(rt;
            "{PROGRAM}: {name}: to keep the events, add --events OUT; the same words find the same fault again"
        ),
    };
}

/// Says how a search of this region for events went.
pub fn storm_region<R: Print + Eprint + Files + Clock + AllocGlobal>(
    rt: &R,
    hunted: &Hunted<'_>,
    rom: &Rom<'_>,
    search: &HuntTerms,
    region: Region,
    symbols: &Symbols<'_>,
) -> Result<Status, Trouble> {
    let most = match search.seconds {
        Some(_) => MOST_EVENTS,
        None => EVENTS,
    };
    let mut progress = HuntShown::new(rt, hunted.is_shown, search.seconds);
    let mut storm = Storm::new(rt.alloc(), rom, region, search.seed)?;
    let found = storm.search(most, &mut progress)?;
    progress.done();
    let Some(list) = found else {
        return Ok(tell_none(rt, hunted.name, CountedIn::Event, storm.events()));
    };
    let mut unhurried = HuntShown::new(rt, false, None);
    let list = shorten_events(rt.alloc(), rom, region, list, SHORTENED, &mut unhurried)?;
    if let Some(name) = hunted.output {
        write_list(rt, name, &list)?;
    }
    let played = PlayedEvents {
        name: hunted.name,
        rom: hunted.bytes,
        list: &list,
        region,
    };
    let status = replay_played(rt, &played, symbols)?;
    if status == Status::Refused {
        tell_again(rt, hunted.name, region, hunted.output);
    }
    Ok(status)
}
