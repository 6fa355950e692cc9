//! What bytes of RAM hold throughout, as far as runs have shown: the candidates for a certificate's facts. A byte that is read begins
//! with the 0 that most starts clear RAM with. It grows by all that a run was seen to put there, until a run stays within it.

use crate::types::Run;
use gb_joining::fact_news::ReadStretch;
use gb_joining::gb_domain::StridedInterval;
use gb_joining::gb_domain::interval::{bounds, join, lies_in, low_bits_of, with_low_bits};
use gb_joining::gb_domain::summary::Fact;
use gb_joining::gb_ops::machine::Region;
use gb_joining::gb_ram_bounds::addresses::is_in;
use gb_joining::gb_ram_bounds::facts::has_address;
use gb_joining::gb_verify::is_ram;
use gb_joining::steps::Steps;
use std::alloc::{AllocError, Global};
use std::collections::BTreeMap;

/// A certificate has no more facts.
pub const FACTS: usize = 4_096;

/// How often a byte grows by joins alone.
const PATIENCE: u8 = 2;

/// After so many growths nothing is said of a byte any more.
const MOST_GROWTHS: u8 = 16;

/// The distances that are tried between bytes with one value: those of fields of structs.
const STEPS: [u8; 6] = [1, 2, 4, 8, 16, 32];

/// So many bytes make a fact with a step above 1.
const FEWEST: u16 = 3;

/// What a byte holds throughout, and how often that grew.
#[derive(Clone, Copy)]
struct ByteBounds {
    value: StridedInterval,
    growths: u8,
    /// Where it was met it held later than others.
    is_late: bool,
    /// Handlers have to do with it, so that it may not come later.
    is_early: bool,
}

/// How far bytes with one value go on from an address.
#[derive(Clone, Copy)]
struct Stretch {
    step: u8,
    /// How many there are, the first one too.
    count: u16,
}

/// Facts in the order of a certificate.
#[derive(Drop)]
pub struct OrderedFacts {
    pub facts: Vec<Fact>,
    /// How many come before those that were put off.
    pub early: usize,
}

/// What bytes hold throughout.
#[derive(Clone, Drop)]
pub struct FactTable {
    bytes: BTreeMap<u16, ByteBounds>,
}

impl FactTable {
    /// Nothing is said of any byte.
    pub fn new(alloc: Global) -> FactTable {
        FactTable {
            bytes: BTreeMap::new(alloc),
        }
    }

    /// Something may be said of a byte from now on. Whether it is a new one.
    pub fn add(&mut self, address: u16) -> Result<bool, AllocError> {
        if self.bytes.contains_key(&address) {
            return Ok(false);
        }
        let zero = ByteBounds {
            value: bounds(0, 0),
            growths: 0,
            is_late: false,
            is_early: false,
        };
        self.bytes.insert(address, zero)?;
        Ok(true)
    }

    /// A byte holds a value too. Whether what is said of it grew.
    pub fn grow(&mut self, address: u16, value: StridedInterval, steps: &Steps) -> bool {
        let Some(byte) = self.bytes.get_mut(&address) else {
            return false;
        };
        if lies_in(value, byte.value) {
            return false;
        }
        byte.growths = byte.growths.saturating_add(1);
        let joined = join(byte.value, value);
        byte.value = if byte.growths > MOST_GROWTHS {
            bounds(0, u8::MAX)
        } else if byte.growths > PATIENCE {
            widened(joined, steps)
        } else {
            joined
        };
        true
    }

    /// Nothing is said of a byte any more. Whether something was.
    pub fn forget(&mut self, address: u16) -> bool {
        match self.bytes.get_mut(&address) {
            Some(byte) => {
                let was_said = says_something(byte.value);
                byte.value = bounds(0, u8::MAX);
                was_said
            }
            None => false,
        }
    }

    /// A fact of a byte comes before those that were put off, for good. Whether it didn't yet.
    fn bring_forward(&mut self, address: u16) -> bool {
        match self.bytes.get_mut(&address) {
            Some(byte) => {
                let was_late = byte.is_late;
                byte.is_late = false;
                byte.is_early = true;
                was_late
            }
            None => false,
        }
    }

    /// A fact of a byte comes behind others from now on. Whether it didn't yet.
    pub fn put_off(&mut self, address: u16) -> bool {
        match self.bytes.get_mut(&address) {
            Some(byte) => {
                let was_early = !byte.is_late && !byte.is_early;
                byte.is_late = byte.is_late || was_early;
                was_early
            }
            None => false,
        }
    }

    /// The facts outside the stack region, neighbours with one value as one. Those that were put off come last.
    pub fn facts(&self, alloc: Global, region: Region) -> Result<OrderedFacts, AllocError> {
        let mut facts = Vec::new(alloc);
        self.add_facts(self.telling(alloc, region, false)?, &mut facts)?;
        facts.truncate(FACTS);
        let early = facts.len();
        self.add_facts(self.telling(alloc, region, true)?, &mut facts)?;
        facts.truncate(FACTS);
        Ok(OrderedFacts { facts, early })
    }

    /// Adds the facts of bytes.
    fn add_facts(
        &self,
        mut left: BTreeMap<u16, StridedInterval>,
        facts: &mut Vec<Fact>,
    ) -> Result<(), AllocError> {
        for _ in 0..=self.bytes.len() {
            let Some((first, value)) = left.pop_first() else {
                break;
            };
            facts.push(take_fact(&mut left, first, value))?;
        }
        Ok(())
    }

    /// The bytes outside the stack region of which something is said, those that were put off or the others.
    fn telling(
        &self,
        alloc: Global,
        region: Region,
        is_late: bool,
    ) -> Result<BTreeMap<u16, StridedInterval>, AllocError> {
        let mut telling = BTreeMap::new(alloc);
        for (address, byte) in self.bytes.iter() {
            let is_inside = region.first <= *address && *address <= region.last;
            if !is_inside && byte.is_late == is_late && says_something(byte.value) {
                telling.insert(*address, byte.value)?;
            }
        }
        Ok(telling)
    }
}

fn says_something(value: StridedInterval) -> bool {
    value.lo != 0 || value.hi != u8::MAX || value.count != 0
}

/// The greatest value goes on to the next step, as far as the low bits allow.
fn widened(value: StridedInterval, steps: &Steps) -> StridedInterval {
    match with_low_bits(value.lo, steps.step_above(value.hi), low_bits_of(value)) {
        Some(wider) => wider,
        None => value,
    }
}

/// The address so many steps on, if there is one.
fn address_at(first: u16, step: u8, number: u16) -> Option<u16> {
    first.checked_add(u16::from(step).checked_mul(number)?)
}

/// How many bytes with a value there are, one behind the other in such steps.
fn count_of(
    left: &BTreeMap<u16, StridedInterval>,
    first: u16,
    value: StridedInterval,
    step: u8,
) -> u16 {
    for number in 1..=u16::MAX {
        let is_same = match address_at(first, step, number) {
            Some(address) => left.get(&address) == Some(&value),
            None => false,
        };
        if !is_same {
            return number;
        }
    }
    u16::MAX
}

/// The neighbours with the value of a byte: those next to each other, else as many as there are with one step.
fn stretch_of(
    left: &BTreeMap<u16, StridedInterval>,
    first: u16,
    value: StridedInterval,
) -> Stretch {
    let mut best = Stretch { step: 1, count: 1 };
    for step in STEPS {
        let count = count_of(left, first, value, step);
        if step == 1 && count > 1 {
            return Stretch { step, count };
        }
        if count >= FEWEST && count > best.count {
            best = Stretch { step, count };
        }
    }
    best
}

/// The fact of a byte and its neighbours, which are left no more.
fn take_fact(
    left: &mut BTreeMap<u16, StridedInterval>,
    first: u16,
    value: StridedInterval,
) -> Fact {
    let stretch = stretch_of(left, first, value);
    let mut last = first;
    for number in 1..stretch.count {
        if let Some(address) = address_at(first, stretch.step, number) {
            left.remove(&address);
            last = address;
        }
    }
    Fact {
        first,
        last,
        step: stretch.step,
        value,
    }
}

/// The most addresses of one read that facts are sought for.
const MOST_READ: u16 = 4_096;

/// How many nodes of main are asked which facts hold there.
const NODES_ASKED: usize = 200;

impl FactTable {
    /// What a run learnt of bytes. Whether it is something new.
    pub fn learn(&mut self, alloc: Global, run: &Run<'_>) -> Result<bool, AllocError> {
        let mut is_new = false;
        for (address, value) in run.fact_news.grown.iter() {
            is_new = self.grow(*address, *value, &run.widening) || is_new;
        }
        for (address, value) in run.fact_news.beyond.iter() {
            let is_other = if run.is_handlers_byte(*address) {
                self.bring_forward(*address) || self.grow(*address, *value, &run.widening)
            } else {
                self.put_off(*address)
            };
            is_new = is_other || is_new;
        }
        for read in &run.fact_news.read {
            is_new = self.add_all(*read)? || is_new;
        }
        if is_new {
            return Ok(true);
        }
        let never = run.never_held(alloc, NODES_ASKED)?;
        Ok(self.leave_out(&never, run.has_met_nothing()))
    }

    /// Something may be said of all bytes of RAM that are read. Whether some are new.
    fn add_all(&mut self, read: ReadStretch) -> Result<bool, AllocError> {
        let addresses = read.addresses();
        let mut is_new = false;
        if read.last.saturating_sub(read.first) > MOST_READ {
            return Ok(false);
        }
        for address in read.first..=read.last {
            if is_ram(address) && is_in(addresses, address) {
                is_new = self.add(address)? || is_new;
            }
        }
        Ok(is_new)
    }

    /// These facts come last, or are none any more. Whether something changes.
    fn leave_out(&mut self, facts: &[Fact], for_good: bool) -> bool {
        let mut is_new = false;
        for fact in facts {
            for address in fact.first..=fact.last {
                if has_address(fact, address) {
                    let is_other = if for_good {
                        self.forget(address)
                    } else {
                        self.put_off(address)
                    };
                    is_new = is_other || is_new;
                }
            }
        }
        is_new
    }
}
