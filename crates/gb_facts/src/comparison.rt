//! What is otherwise in a new certificate than in an old one.

use crate::interrupt::{INTERRUPTS, Interrupt};
use crate::outline::{Outline, Sketch};
use gb_explain::Range;
use gb_ops::machine::Region;
use std::alloc::{AllocError, Global};

/// By what a procedure of one certificate is found again in the other.
#[derive(Clone, Copy, PartialEq, Eq)]
pub enum Key<'a> {
    Main,
    /// A symbol at its first address.
    Named(&'a str),
    /// Its first address.
    At { bank: u16, address: u16 },
}

/// Whether something is there now that wasn't before, or the other way round.
#[derive(Clone, Copy, PartialEq, Eq)]
pub enum Side {
    New,
    Gone,
}

/// A difference. A procedure is meant by the place of its sketch: in the old outline where it is gone, else in the new one.
#[derive(Clone, Copy, PartialEq, Eq)]
pub enum Difference {
    /// The stack's region.
    Region {
        before: Region,
        now: Region,
    },
    /// A procedure, with the bytes of stack that it is allowed.
    Procedure {
        side: Side,
        place: usize,
        need: u16,
    },
    /// The bytes of stack that a procedure is allowed.
    Need {
        place: usize,
        before: u16,
        now: u16,
    },
    /// Some RAM that a procedure may write.
    Writes {
        side: Side,
        place: usize,
        range: Range,
    },
    /// An interrupt that may come in a procedure.
    Coming {
        side: Side,
        place: usize,
        interrupt: Interrupt,
    },
    /// A bank that has certified code.
    Bank {
        side: Side,
        bank: u16,
    },
}

/// A certificate's outline, with a key for each of its sketches.
#[derive(Clone, Copy)]
pub struct Keyed<'a> {
    pub outline: &'a Outline,
    pub keys: &'a [Key<'a>],
}

/// Where a key stands.
fn place_of(keys: &[Key<'_>], key: Key<'_>) -> Option<usize> {
    for (place, found) in keys.iter().enumerate() {
        if *found == key {
            return Some(place);
        }
    }
    None
}

impl<'a> Keyed<'a> {
    /// The sketch with the key that another one's sketch has.
    fn like(&self, other: &Keyed<'_>, place: usize) -> Option<&'a Sketch> {
        let key = *other.keys.get(place)?;
        let place = place_of(self.keys, key)?;
        self.outline.sketches.get(place)
    }
}

/// Whether an address lies in one of some ranges.
fn is_in(ranges: &[Range], address: u16) -> bool {
    for range in ranges {
        if range.first <= address && address <= range.last {
            return true;
        }
    }
    false
}

/// Adds an address behind a run: the last run goes on with it, or a new one begins.
fn add_address(runs: &mut Vec<Range>, address: u16) -> Result<(), AllocError> {
    if let Some(run) = runs.last_mut() {
        if run.last.saturating_add(1) == address {
            run.last = address;
            return Ok(());
        }
    }
    runs.push(Range {
        first: address,
        last: address,
    })?;
    Ok(())
}

/// The addresses of some ranges that don't lie in others.
pub(crate) fn runs_beyond(
    alloc: Global,
    ranges: &[Range],
    others: &[Range],
) -> Result<Vec<Range>, AllocError> {
    let mut runs = Vec::new(alloc);
    if ranges == others {
        return Ok(runs);
    }
    for address in 0xC000..=0xFFFE {
        if is_in(ranges, address) && !is_in(others, address) {
            add_address(&mut runs, address)?;
        }
    }
    Ok(runs)
}

/// The differences, as they are found.
#[derive(Drop)]
struct FoundPair {
    alloc: Global,
    all: Vec<Difference>,
}

impl FoundPair {
    fn add(&mut self, difference: Difference) -> Result<(), AllocError> {
        self.all.push(difference)?;
        Ok(())
    }

    /// What of some ranges lies beyond others.
    fn add_beyond(
        &mut self,
        side: Side,
        place: usize,
        ranges: &[Range],
        others: &[Range],
    ) -> Result<(), AllocError> {
        for range in &runs_beyond(self.alloc, ranges, others)? {
            self.add(Difference::Writes {
                side,
                place,
                range: *range,
            })?;
        }
        Ok(())
    }

    /// The interrupt that comes in one and not in the other.
    fn add_coming(
        &mut self,
        place: usize,
        interrupt: Interrupt,
        before: &Sketch,
        now: &Sketch,
    ) -> Result<(), AllocError> {
        let was = before.comings.contains(&interrupt);
        let is = now.comings.contains(&interrupt);
        let side = match (was, is) {
            (false, true) => Side::New,
            (true, false) => Side::Gone,
            _ => return Ok(()),
        };
        self.add(Difference::Coming {
            side,
            place,
            interrupt,
        })
    }

    /// What is otherwise in a procedure that is there in both.
    fn add_changes(
        &mut self,
        place: usize,
        before: &Sketch,
        now: &Sketch,
    ) -> Result<(), AllocError> {
        if before.need != now.need {
            self.add(Difference::Need {
                place,
                before: before.need,
                now: now.need,
            })?;
        }
        let (old, new) = (before.ranges.as_slice(), now.ranges.as_slice());
        self.add_beyond(Side::New, place, new, old)?;
        self.add_beyond(Side::Gone, place, old, new)?;
        for interrupt in INTERRUPTS {
            self.add_coming(place, *interrupt, before, now)?;
        }
        Ok(())
    }

    /// What there is to say of the new procedures: new ones, and what is otherwise in the others.
    fn add_procedures(&mut self, old: &Keyed<'_>, new: &Keyed<'_>) -> Result<(), AllocError> {
        for (place, now) in new.outline.sketches.iter().enumerate() {
            match old.like(new, place) {
                Some(before) => self.add_changes(place, before, now)?,
                None => self.add(Difference::Procedure {
                    side: Side::New,
                    place,
                    need: now.need,
                })?,
            }
        }
        Ok(())
    }

    /// The procedures that are gone.
    fn add_gone(&mut self, old: &Keyed<'_>, new: &Keyed<'_>) -> Result<(), AllocError> {
        for (place, before) in old.outline.sketches.iter().enumerate() {
            if new.like(old, place).is_none() {
                self.add(Difference::Procedure {
                    side: Side::Gone,
                    place,
                    need: before.need,
                })?;
            }
        }
        Ok(())
    }

    /// The banks that have code in one of both alone.
    fn add_banks(&mut self, old: &[bool], new: &[bool]) -> Result<(), AllocError> {
        let mut bank = 0u16;
        for (was, is) in old.iter().zip(new) {
            if *was != *is {
                let side = if *is { Side::New } else { Side::Gone };
                self.add(Difference::Bank { side, bank })?;
            }
            bank = bank.saturating_add(1);
        }
        Ok(())
    }

    /// The stack's region.
    fn add_region(&mut self, before: Region, now: Region) -> Result<(), AllocError> {
        if before == now {
            return Ok(());
        }
        self.add(Difference::Region { before, now })
    }
}

/// What is otherwise in a new certificate than in an old one.
///
/// # Errors
///
/// Where memory ran out.
pub fn differences(
    alloc: Global,
    old: &Keyed<'_>,
    new: &Keyed<'_>,
) -> Result<Vec<Difference>, AllocError> {
    let mut found = FoundPair {
        alloc,
        all: Vec::new(alloc),
    };
    found.add_region(old.outline.region, new.outline.region)?;
    found.add_procedures(old, new)?;
    found.add_gone(old, new)?;
    found.add_banks(old.outline.banks.as_slice(), new.outline.banks.as_slice())?;
    let FoundPair { all, .. } = found;
    Ok(all)
}

/// Whether two ways go through the same procedures.
pub fn is_same_way(old: &Keyed<'_>, before: &[usize], new: &Keyed<'_>, now: &[usize]) -> bool {
    if before.len() != now.len() {
        return false;
    }
    for (old_place, new_place) in before.iter().zip(now) {
        match (old.keys.get(*old_place), new.keys.get(*new_place)) {
            (Some(before), Some(now)) if *before == *now => {}
            _ => return false,
        }
    }
    true
}
