//! Machine states that are kept.

use gb_ops::machine::Banks;
use gb_ops::registers::Processor;
use gb_plain::MachineState;
use gb_plain::state::longest_transfer;
use std::alloc::{AllocError, Global};

/// A machine state without its cartridge.
#[derive(Drop)]
pub(crate) struct Snapshot {
    processor: Processor,
    banks: Banks,
    ie: u8,
    count: u8,
    work: Vec<u8>,
    high: Vec<u8>,
}

impl Snapshot {
    /// The state as it is.
    pub(crate) fn of(alloc: Global, state: &MachineState) -> Result<Snapshot, AllocError> {
        Ok(Snapshot {
            processor: state.processor(),
            banks: state.banks(),
            ie: state.ie(),
            count: state.count(),
            work: Vec::from_slice(alloc, state.work())?,
            high: Vec::from_slice(alloc, state.high())?,
        })
    }

    /// Makes a state of the same cartridge what this one was.
    pub(crate) fn restore(&self, state: &mut MachineState) {
        state.set_processor(self.processor);
        let _is_held = state.set_banks(self.banks);
        state.set_ie(self.ie);
        state.set_count(self.count.min(longest_transfer()));
        for i in 0..8192u16 {
            let byte = self.work.get(usize::from(i)).copied().unwrap_or(0);
            state.set_work_byte(i, byte);
        }
        for i in 0..127u16 {
            let byte = self.high.get(usize::from(i)).copied().unwrap_or(0);
            state.set_high_byte(i, byte);
        }
    }
}
