//! Lists of events.

ghost use Rattle.std.specs.Prelude.{◌≡◌, true, [], ◌++◌, length, replicate, IfOk, IfSome, OnErr};
ghost use Rattle.gb_events.specs.Replay.{events_of};

use gb_ops::machine::Event;
use std::alloc::{AllocError, Global};
use std::marker::Model;

/// An event, so many times in a row.
#[derive(Clone, Copy, Debug, PartialEq, Eq)]
pub struct Repeated {
    pub event: Event,
    pub count: u32,
}

/// Events one after another, at most 2^64 - 1 of them. Contracts see the events with their counts.
#[derive(Drop)]
pub struct EventList {
    items: Vec<Repeated>,
    total: u64,
}

impl Model for EventList {
    ghost use Rattle.std.specs.Prelude.{◌≡◌, List, length};
    ghost use Rattle.gb_events.specs.Replay.{events_of};
    ghost use Rattle.gb_events.specs.declared.list.Repeated.{Repeated};

    ghost Value = { List Repeated };

    ghost view = { λ list. list.items.items };

    ghost invariant = { λ list. list.total ≡ length (events_of list.items.items) };
}

/// Whether two events are the same.
fn is_same(first: Event, second: Event) -> bool
    ensures { result ≡ true → first ≡ second }
{
    match (first, second) {
        (
            Event::Run { fetch, reads },
            Event::Run {
                fetch: bytes,
                reads: others,
            },
        ) => fetch == bytes && reads == others,
        (Event::HaltStay, Event::HaltStay) | (Event::HaltBug, Event::HaltBug) => true,
        (Event::Irq(i), Event::Irq(j)) => i == j,
        (Event::Wait(cycles), Event::Wait(others)) => cycles == others,
        _ => false,
    }
}

/// An item, and then an event so many times, as one item where there is such a one.
#[tactic(auto, using(crate::proofs::Listing::as_one))]
fn joined(last: Repeated, event: Event, count: u32) -> Option<Repeated>
    ensures { IfSome result (λ item. replicate item.count item.event ≡ replicate last.count last.event ++ replicate count event) }
{
    if !is_same(last.event, event) {
        return None;
    }
    let count = last.count.checked_add(count)?;
    Some(Repeated { event, count })
}

/// Puts an event so many times behind some items.
#[tactic(auto, using(crate::proofs::Listing::pushed, crate::proofs::Listing::widened))]
fn put(items: &mut Vec<Repeated>, event: Event, count: u32) -> Result<(), AllocError>
    ensures pushed { IfOk result (λ _. events_of items.new.items ≡ events_of items.old.items ++ replicate count event) }
    ensures same { OnErr result (items.new.items ≡ items.old.items) }
{
    if let Some(last) = items.last()
        && let Some(item) = joined(*last, event, count)
    {
        let place = items.len() - 1;
        items[place] = item;
        return Ok(());
    }
    items.push(Repeated { event, count })?;
    Ok(())
}

impl EventList {
    /// No events.
    #[tactic(auto, unfolding(crate::specs::Replay::events_of))]
    pub fn new(alloc: Global) -> EventList
        ensures { result ≡ [] }
    {
        EventList {
            items: Vec::new(alloc),
            total: 0,
        }
    }

    /// The events with their counts.
    pub fn as_slice(&self) -> &[Repeated]
        ensures { result.now ≡ self.now }
    {
        &self.items
    }

    /// How many events they are.
    pub fn total(&self) -> u64
        ensures { result ≡ length (events_of self.now) }
    {
        self.total
    }

    /// Adds an event so many times.
    ///
    /// # Errors
    ///
    /// AllocError where there is no room: memory ran out, or the events would be more than 2^64 - 1. The list then stays as it was.
    #[tactic(auto, using(crate::proofs::Listing::pushed_total))]
    pub fn push(&mut self, event: Event, count: u32) -> Result<(), AllocError>
        ensures pushed { IfOk result (λ _. events_of self.new ≡ events_of self.old ++ replicate count event) }
        ensures same { OnErr result (self.new ≡ self.old) }
    {
        let Some(total) = self.total.checked_add(u64::from(count)) else {
            return Err(AllocError);
        };
        put(&mut self.items, event, count)?;
        self.total = total;
        Ok(())
    }

    /// Adds the events of another list.
    ///
    /// # Errors
    ///
    /// AllocError where there is no room; then some of them are added.
    pub fn append(&mut self, others: &EventList) -> Result<(), AllocError> {
        for other in others.as_slice() {
            self.push(other.event, other.count)?;
        }
        Ok(())
    }
}
