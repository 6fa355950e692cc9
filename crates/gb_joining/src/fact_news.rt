//! What a run learns of bytes of RAM: which are read, and what they hold beyond their facts. A run goes on as if the facts held all the
//! same; the next one has facts that do.

use gb_verify::gb_domain::interval::join;
use gb_verify::gb_domain::summary::Fact;
use gb_verify::gb_domain::{LowBits, StridedInterval};
use gb_verify::gb_ram_bounds::AddressSet;
use gb_verify::gb_ram_bounds::addresses::is_in;
use std::alloc::{AllocError, Global};
use std::collections::{BTreeMap, BTreeSet};

/// Addresses that an instruction reads from.
#[derive(Clone, Copy, PartialEq, Eq, PartialOrd, Ord)]
pub struct ReadStretch {
    pub first: u16,
    pub last: u16,
    /// How many low bits of the addresses are known, and which they are.
    pub low_count: u8,
    pub low_bits: u8,
}

impl ReadStretch {
    /// Those that count.
    pub fn addresses(&self) -> AddressSet {
        AddressSet {
            first: self.first,
            last: self.last,
            low: LowBits {
                count: self.low_count,
                bits: self.low_bits,
            },
        }
    }
}

/// What a run learns of bytes of RAM.
#[derive(Drop)]
pub struct FactNews {
    /// What bytes hold beyond their facts, all of it joined.
    pub grown: BTreeMap<u16, StridedInterval>,
    /// What is read of RAM.
    pub read: BTreeSet<ReadStretch>,
    /// What of it routines read while interrupts are off, as handlers do.
    pub read_apart: BTreeSet<ReadStretch>,
    /// What bytes hold beyond their facts where a handler comes, all of it joined.
    pub beyond: BTreeMap<u16, StridedInterval>,
    /// The numbers of the facts, by address: each byte has one at most.
    numbers: BTreeMap<u16, usize>,
}

impl FactNews {
    /// Nothing yet, with these facts.
    pub fn new(alloc: Global, facts: &[Fact]) -> Result<FactNews, AllocError> {
        let mut numbers = BTreeMap::new(alloc);
        for (number, fact) in facts.iter().enumerate() {
            add_addresses(number, fact, &mut numbers)?;
        }
        Ok(FactNews {
            grown: BTreeMap::new(alloc),
            read: BTreeSet::new(alloc),
            read_apart: BTreeSet::new(alloc),
            beyond: BTreeMap::new(alloc),
            numbers,
        })
    }

    /// The number of the fact that has an address.
    pub fn number_at(&self, address: u16) -> Option<usize> {
        self.numbers.get(&address).copied()
    }

    /// A byte holds a value that its fact doesn't have.
    pub fn grow(&mut self, address: u16, value: StridedInterval) -> Result<(), AllocError> {
        let value = match self.grown.get(&address) {
            Some(before) => join(*before, value),
            None => value,
        };
        self.grown.insert(address, value)?;
        Ok(())
    }

    /// A byte holds a value that its fact doesn't have where a handler comes.
    pub fn go_beyond(&mut self, address: u16, value: StridedInterval) -> Result<(), AllocError> {
        let value = match self.beyond.get(&address) {
            Some(before) => join(*before, value),
            None => value,
        };
        self.beyond.insert(address, value)?;
        Ok(())
    }

    /// Something is read of these addresses.
    pub fn record_read(&mut self, addresses: AddressSet, is_apart: bool) -> Result<(), AllocError> {
        let stretch = ReadStretch {
            first: addresses.first,
            last: addresses.last,
            low_count: addresses.low.count,
            low_bits: addresses.low.bits,
        };
        self.read.insert(stretch)?;
        if is_apart {
            self.read_apart.insert(stretch)?;
        }
        Ok(())
    }

    /// Whether a byte is read while interrupts are off.
    pub fn is_read_apart(&self, address: u16) -> bool {
        self.read_apart
            .iter()
            .any(|stretch| is_in(stretch.addresses(), address))
    }
}

fn add_addresses(
    number: usize,
    fact: &Fact,
    numbers: &mut BTreeMap<u16, usize>,
) -> Result<(), AllocError> {
    let mut address = fact.first;
    for _ in fact.first..=fact.last {
        numbers.insert(address, number)?;
        match address.checked_add(fact.step.into()) {
            Some(next) if next <= fact.last && fact.step > 0 => address = next,
            _ => break,
        }
    }
    Ok(())
}
