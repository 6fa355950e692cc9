//! The search for events that lead to a fault.

use crate::free::reads_hardware;
use crate::list::EventList;
use crate::play::{has_fault, machine_of};
use crate::snapshot::Snapshot;
use gb_ops::machine::{Event, Region};
use gb_ops::registers::Ime;
use gb_plain::faults::faults;
use gb_plain::possible::is_possible;
use gb_plain::{PlainMachine, Rom};
use rand_core::{Rng, SeedableRng};
use rand_xoshiro::Xoshiro256PlusPlus;
use std::alloc::{AllocError, Global};

/// The events of a short burst.
const BURST: u64 = 4096;

/// The states that are kept at most.
const MOST: usize = 384;

/// The bytes by which the stack has to grow further than ever for its state to be kept.
const GROWTH: u16 = 64;

/// The events from one question to the patience to the next: a power of two.
const ASK: u64 = 4096;

/// The addresses 8000 to FFFF, whose flags come before those of ROM.
const RAM: usize = 0x8000;

/// Bytes that games wait for: nothing, the end of the picture, all.
const USUAL: [u8; 8] = [0x00, 0x90, 0x91, 0xFF, 0x94, 0x01, 0x0F, 0x80];

/// Whoever waits for the search.
pub trait Patience {
    /// Whether the search goes on. It is asked after each few thousand events, and hears how many there were.
    fn lasts(&mut self, events: u64) -> bool;
}

/// How often things come in a burst: each is the number of events in which it comes about once.
#[derive(Clone, Copy)]
struct Mood {
    interrupt: u64,
    usual: u64,
}

/// A state that was kept: the one before it, and the events from there.
#[derive(Drop)]
struct StormLead {
    snapshot: Snapshot,
    before: usize,
    events: EventList,
}

/// How a burst ended.
#[derive(Clone, Copy, PartialEq, Eq)]
enum Stormed {
    Done,
    Found,
    Halted,
}

/// A search of a cartridge.
#[derive(Drop)]
pub struct Storm {
    alloc: Global,
    machine: PlainMachine,
    region: Region,
    random: Xoshiro256PlusPlus,
    seen: Vec<u8>,
    leads: Vec<StormLead>,
    /// The lead that the burst goes on from, and the events since.
    before: usize,
    since: EventList,
    mood: Mood,
    events: u64,
    bursts: u64,
    /// The least stack pointer of a state that was kept for it.
    least_sp: u16,
    /// Whether the stack grew further than ever in the last burst.
    is_growing: bool,
}

/// The lowest interrupt from this one on that is enabled, around.
fn enabled_from(ie: u8, first: u8) -> Option<u8> {
    for step in 0..5u8 {
        let i = first.wrapping_add(step) % 5;
        if ie & (1u8 << i) != 0 {
            return Some(i);
        }
    }
    None
}

impl Storm {
    /// A search from power-up, whose events the seed determines.
    ///
    /// # Errors
    ///
    /// AllocError where there is no room.
    pub fn new(
        alloc: Global,
        rom: &Rom<'_>,
        region: Region,
        seed: u64,
    ) -> Result<Storm, AllocError> {
        let machine = machine_of(alloc, rom)?;
        let first = StormLead {
            snapshot: Snapshot::of(alloc, &machine.state)?,
            before: 0,
            events: EventList::new(alloc),
        };
        let mut leads = Vec::new(alloc);
        leads.push(first)?;
        Ok(Storm {
            alloc,
            machine,
            region,
            random: Xoshiro256PlusPlus::seed_from_u64(seed),
            seen: vec![in alloc; 0; rom.bytes().len().saturating_add(RAM)]?,
            leads,
            before: 0,
            since: EventList::new(alloc),
            mood: Mood {
                interrupt: 64,
                usual: 2,
            },
            events: 0,
            bursts: 0,
            least_sp: region.last,
            is_growing: false,
        })
    }

    /// The events that were tried.
    pub fn events(&self) -> u64 {
        self.events
    }

    /// The states that are kept.
    pub fn leads(&self) -> usize {
        self.leads.len()
    }

    /// A number below `most`, and 0 where that is 0.
    fn below(&mut self, most: u64) -> u64 {
        if most == 0 {
            0
        } else {
            self.random.next_u64() % most
        }
    }

    /// A byte that hardware gives.
    fn byte(&mut self) -> u8 {
        if self.below(self.mood.usual) == 0 {
            let chosen = self.below(8);
            USUAL.get(chosen as usize).copied().unwrap_or(0)
        } else {
            (self.random.next_u64() % 256) as u8
        }
    }

    /// Whether code runs now that hadn't run before.
    fn is_new(&mut self) -> bool {
        let place = self.machine.state.place();
        let index = if place.address < 0x8000 {
            RAM + 0x4000 * usize::from(place.bank) + usize::from(place.address % 0x4000)
        } else {
            usize::from(place.address - 0x8000)
        };
        match self.seen.get_mut(index) {
            Some(flag) => {
                let is_new = *flag == 0;
                *flag = 1;
                is_new
            }
            None => false,
        }
    }

    /// Whether the stack is longer than in any state that was kept, by enough bytes.
    fn is_stack_longer(&mut self) -> bool {
        let sp = self.machine.state.processor().sp;
        let is_longer = self.region.first <= sp && sp < self.least_sp.saturating_sub(GROWTH);
        if is_longer {
            self.least_sp = sp;
            self.is_growing = true;
        }
        is_longer
    }

    /// The interrupt that comes now, if one does.
    fn interrupt(&mut self) -> Option<u8> {
        let state = &self.machine.state;
        let is_on = matches!(state.processor().ime, Ime::On);
        let ie = state.ie();
        if !is_on || ie % 32 == 0 || self.below(self.mood.interrupt) != 0 {
            return None;
        }
        let first = self.below(5);
        enabled_from(ie, (first % 5) as u8)
    }

    /// The next event.
    fn choose(&mut self) -> Event {
        if let Some(i) = self.interrupt() {
            return Event::Irq(i);
        }
        let reads = if reads_hardware(&self.machine.state) {
            [self.byte(), self.byte()]
        } else {
            [0, 0]
        };
        Event::Run {
            fetch: [0, 0, 0],
            reads,
        }
    }

    /// Keeps the state, where there is room.
    fn keep(&mut self) -> Result<(), AllocError> {
        if self.leads.len() >= MOST {
            return Ok(());
        }
        let snapshot = Snapshot::of(self.alloc, &self.machine.state)?;
        let mut events = EventList::new(self.alloc);
        events.append(&self.since)?;
        self.leads.push(StormLead {
            snapshot,
            before: self.before,
            events,
        })?;
        self.before = self.leads.len().saturating_sub(1);
        self.since = EventList::new(self.alloc);
        Ok(())
    }

    /// One event. Answers whether it has a fault; such a one isn't applied.
    fn step(&mut self) -> Result<bool, AllocError> {
        let is_longer = self.is_stack_longer();
        if self.is_new() || is_longer {
            self.keep()?;
        }
        let event = self.choose();
        self.since.push(event, 1)?;
        self.events = self.events.wrapping_add(1);
        if has_fault(faults(self.region, &self.machine.state, event)) {
            return Ok(true);
        }
        self.machine.apply(event);
        Ok(false)
    }

    /// So many events from where the machine is.
    fn burst<P: Patience>(&mut self, length: u64, patience: &mut P) -> Result<Stormed, AllocError> {
        for _ in 0..length {
            if self.events % ASK == 0 && !patience.lasts(self.events) {
                return Ok(Stormed::Halted);
            }
            if self.step()? {
                return Ok(Stormed::Found);
            }
            let idle = Event::Run {
                fetch: [0; 3],
                reads: [0; 2],
            };
            if !is_possible(&self.machine.state, idle) {
                return Ok(Stormed::Done);
            }
        }
        Ok(Stormed::Done)
    }

    /// Goes back to a lead, mostly one of the newest, in another mood.
    fn begin(&mut self) {
        let count = self.leads.len() as u64;
        let back = if self.below(2) == 0 {
            self.below(count)
        } else {
            self.below(count.min(8))
        };
        let number = count.saturating_sub(1).saturating_sub(back) as usize;
        if let Some(lead) = self.leads.get(number) {
            lead.snapshot.restore(&mut self.machine.state);
        }
        self.before = number;
        self.since = EventList::new(self.alloc);
        let interrupt = match self.below(6) {
            0 => 1,
            1 => 2,
            2 => 8,
            3 => 64,
            4 => 512,
            _ => 4096,
        };
        let usual = self.below(3).saturating_add(1);
        self.mood = Mood { interrupt, usual };
    }

    /// All events up to now, from power-up.
    fn history(&self) -> Result<EventList, AllocError> {
        let mut numbers = Vec::new(self.alloc);
        let mut number = self.before;
        for _ in 0..MOST {
            numbers.push(number)?;
            match self.leads.get(number) {
                Some(lead) if number != 0 => number = lead.before,
                _ => break,
            }
        }
        let mut all = EventList::new(self.alloc);
        for number in numbers.iter().rev() {
            if let Some(lead) = self.leads.get(*number) {
                all.append(&lead.events)?;
            }
        }
        all.append(&self.since)?;
        Ok(all)
    }

    /// Tries at most so many events, while the patience lasts. Answers the events up to the first one with a fault.
    ///
    /// # Errors
    ///
    /// AllocError where there is no room.
    pub fn search<P: Patience>(
        &mut self,
        events: u64,
        patience: &mut P,
    ) -> Result<Option<EventList>, AllocError> {
        for _ in 0..events {
            if self.events >= events {
                break;
            }
            if !self.is_growing {
                self.begin();
            }
            self.is_growing = false;
            self.bursts = self.bursts.wrapping_add(1);
            let doublings = self.bursts.trailing_zeros().min(6);
            match self.burst(BURST << doublings, patience)? {
                Stormed::Done => {}
                Stormed::Found => return Ok(Some(self.history()?)),
                Stormed::Halted => break,
            }
        }
        Ok(None)
    }
}
