//! Consoles that were kept, to go on from.

use gb_trace::Console;
use std::alloc::{AllocError, Global};

/// The most that are kept.
const MOST: usize = 192;

/// A console, and the keys that led to it from power-up.
#[derive(Drop)]
pub(crate) struct Lead<'a> {
    pub(crate) console: Console<'a>,
    pub(crate) script: Vec<u8>,
}

impl<'a> Lead<'a> {
    /// The same console with the same keys, in room of their own.
    pub(crate) fn try_clone(&self, alloc: Global) -> Result<Lead<'a>, AllocError> {
        Ok(Lead {
            console: self.console.try_clone(alloc)?,
            script: Vec::from_slice(alloc, &self.script)?,
        })
    }
}

/// The leads, the newest at the end; the first one is the console at power-up.
#[derive(Drop)]
pub(crate) struct Leads<'a> {
    list: Vec<Lead<'a>>,
}

impl<'a> Leads<'a> {
    /// One lead.
    pub(crate) fn new(alloc: Global, first: Lead<'a>) -> Result<Leads<'a>, AllocError> {
        let mut list = Vec::new(alloc);
        list.push(first)?;
        Ok(Leads { list })
    }

    /// How many there are.
    pub(crate) fn len(&self) -> usize {
        self.list.len()
    }

    /// A copy of a lead, of the first one where there is none with this number.
    pub(crate) fn copy_of(
        &self,
        alloc: Global,
        number: usize,
    ) -> Result<Option<Lead<'a>>, AllocError> {
        match self.list.get(number) {
            Some(lead) => Ok(Some(lead.try_clone(alloc)?)),
            None => Ok(None),
        }
    }

    /// Keeps a lead, and lets go an older one where there are many: the one with this number, but never the first.
    pub(crate) fn keep(&mut self, lead: Lead<'a>, older: usize) -> Result<(), AllocError> {
        if self.list.len() >= MOST && older != 0 && older < self.list.len() {
            let _old = self.list.remove(older);
        }
        if self.list.len() < MOST {
            self.list.push(lead)?;
        }
        Ok(())
    }
}
