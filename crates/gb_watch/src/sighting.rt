//! What watching sees.

use gb_console::{Ending, Met};
use gb_ops::machine::{CodePlace, Event, Faults};
use gb_ops::registers::Processor;

/// An event with a fault.
#[derive(Clone, Copy)]
pub struct Sighting {
    /// The faults of the event.
    pub faults: Faults,
    /// How many events of its frame came before it.
    pub number: u16,
    /// Where the processor was: PC before the event, and the ROM bank shown there.
    pub place: CodePlace,
    pub event: Event,
    /// What the event met.
    pub met: Met,
    /// The processor before the event.
    pub processor: Processor,
}

/// How a watched frame ended.
#[derive(Clone, Copy)]
pub enum Watched {
    /// As a frame does, and no event had a fault.
    Ended(Ending),
    /// At the first event that had one.
    Faulted(Sighting),
}
