//! Lists of events made shorter, while the same fault stays.

use crate::list::EventList;
use crate::play::{FaultyEvent, Replayed, machine_of, play_events};
use crate::snapshot::Snapshot;
use crate::storm::Patience;
use gb_ops::machine::Region;
use gb_plain::{PlainMachine, Rom};
use std::alloc::{AllocError, Global};

/// How often the number of items that are cut at once is halved.
const HALVINGS: u32 = 24;

/// A list that is made shorter.
#[derive(Drop)]
struct ShorterList {
    alloc: Global,
    machine: PlainMachine,
    start: Snapshot,
    region: Region,
    wanted: FaultyEvent,
    best: EventList,
    /// The events that may still be played.
    left: u64,
}

/// Whether two faults are the same kind at the same place.
fn is_same(one: &FaultyEvent, other: &FaultyEvent) -> bool {
    one.faults == other.faults && one.place == other.place
}

/// The events of a list up to this number, with it.
fn through(alloc: Global, list: &EventList, number: u64) -> Result<EventList, AllocError> {
    let mut left = number.saturating_add(1);
    let mut events = EventList::new(alloc);
    for item in list.as_slice() {
        if left == 0 {
            break;
        }
        let count = if left < u64::from(item.count) {
            left as u32
        } else {
            item.count
        };
        left -= u64::from(count);
        events.push(item.event, count)?;
    }
    Ok(events)
}

impl ShorterList {
    /// How the run of a list ends.
    fn play(&mut self, list: &EventList) -> Replayed {
        self.start.restore(&mut self.machine.state);
        let replayed = play_events(&mut self.machine, list, self.region);
        let played = match replayed {
            Replayed::Faulty(faulty) => faulty.number,
            Replayed::Whole(number) => number,
        };
        self.left = self.left.saturating_sub(played);
        replayed
    }

    /// Takes a list, up to its fault, if that is the wanted one; answers whether it is.
    fn offer(&mut self, list: &EventList) -> Result<bool, AllocError> {
        match self.play(list) {
            Replayed::Faulty(faulty) if is_same(&faulty, &self.wanted) => {
                self.best = through(self.alloc, list, faulty.number)?;
                Ok(true)
            }
            _ => Ok(false),
        }
    }

    /// The best list without so many items from one on.
    fn without(&self, from: usize, count: usize) -> Result<EventList, AllocError> {
        let to = from.saturating_add(count);
        let mut rest = EventList::new(self.alloc);
        for (number, item) in self.best.as_slice().iter().enumerate() {
            if number < from || to <= number {
                rest.push(item.event, item.count)?;
            }
        }
        Ok(rest)
    }

    /// Cuts so many items wherever that can be.
    fn cut<P: Patience>(&mut self, count: usize, patience: &mut P) -> Result<(), AllocError> {
        let mut at = 0usize;
        for _ in 0..self.best.as_slice().len() {
            if at >= self.best.as_slice().len() || self.left == 0 || !patience.lasts(self.left) {
                break;
            }
            let shorter = self.without(at, count)?;
            if !self.offer(&shorter)? {
                at = at.saturating_add(count);
            }
        }
        Ok(())
    }
}

/// A list that leads to the same fault at the same place as this one, with fewer items where such a list was found within so many
/// events and while the patience lasts. A list without a fault is given back as it is.
///
/// # Errors
///
/// AllocError where there is no room.
pub fn shorten_events<P: Patience>(
    alloc: Global,
    rom: &Rom<'_>,
    region: Region,
    list: EventList,
    events: u64,
    patience: &mut P,
) -> Result<EventList, AllocError> {
    let mut machine = machine_of(alloc, rom)?;
    let start = Snapshot::of(alloc, &machine.state)?;
    let Replayed::Faulty(wanted) = play_events(&mut machine, &list, region) else {
        return Ok(list);
    };
    let best = through(alloc, &list, wanted.number)?;
    let mut shorter = ShorterList {
        alloc,
        machine,
        start,
        region,
        wanted,
        best,
        left: events,
    };
    let mut count = shorter.best.as_slice().len();
    for _ in 0..HALVINGS {
        count /= 2;
        if count == 0 {
            break;
        }
        shorter.cut(count, patience)?;
    }
    Ok(shorter.best)
}
