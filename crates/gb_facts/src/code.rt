//! Which bytes are code.

use gb_explain::{Abs, NodeRef, Program, Rom, known_bytes};
use gb_ops::decode::decode;
use std::alloc::{AllocError, Global};

/// The bytes of a bank of ROM.
const BANK: usize = 0x4000;

/// The addresses behind ROM, in which there may be code in RAM.
const RAM: usize = 0x8000;

/// Addresses one after another that hold certified code. In ROM they are counted from the bank's beginning; code in RAM has no
/// bank.
#[derive(Clone, Copy, PartialEq, Eq)]
pub struct CodeRun {
    pub bank: Option<u16>,
    pub first: u16,
    pub last: u16,
}

/// For each byte of ROM, and for each address behind ROM, whether it is code.
#[derive(Drop)]
pub(crate) struct CodeMap {
    rom: Vec<bool>,
    ram: Vec<bool>,
}

/// Marks some bytes.
fn mark(map: &mut [bool], first: usize, length: u8) {
    for offset in 0..usize::from(length) {
        if let Some(byte) = map.get_mut(first.saturating_add(offset)) {
            *byte = true;
        }
    }
}

/// How many bytes the instruction at an address has; an unknown one counts as one.
pub fn length_at(program: &Program<'_>, rom: &Rom<'_>, state: &Abs, address: u16) -> u8 {
    let Some(bytes) = known_bytes(program, rom, state, address) else {
        return 1;
    };
    match decode(&bytes) {
        Some(row) => row.length,
        None => 1,
    }
}

/// Adds a byte to the runs: the last run goes on with it, or a new one begins.
fn add_byte(runs: &mut Vec<CodeRun>, bank: Option<u16>, address: u16) -> Result<(), AllocError> {
    if let Some(run) = runs.last_mut() {
        if run.bank == bank && run.last.saturating_add(1) == address {
            run.last = address;
            return Ok(());
        }
    }
    runs.push(CodeRun {
        bank,
        first: address,
        last: address,
    })?;
    Ok(())
}

/// Adds the runs among some bytes, of which the first stands at an address.
fn add_runs(
    runs: &mut Vec<CodeRun>,
    bank: Option<u16>,
    first: u16,
    marks: &[bool],
) -> Result<(), AllocError> {
    let mut address = first;
    for is_code in marks {
        if *is_code {
            add_byte(runs, bank, address)?;
        }
        address = address.wrapping_add(1);
    }
    Ok(())
}

impl CodeMap {
    /// No code yet.
    pub(crate) fn new(alloc: Global, rom: &Rom<'_>) -> Result<CodeMap, AllocError> {
        let rom = vec![in alloc; false; rom.bytes().len()]?;
        let ram = vec![in alloc; false; RAM]?;
        Ok(CodeMap { rom, ram })
    }

    /// Marks a node's instruction.
    pub(crate) fn mark_node(
        &mut self,
        program: &Program<'_>,
        rom: &Rom<'_>,
        node: &NodeRef<'_>,
        state: &Abs,
    ) {
        let address = node.address();
        let length = length_at(program, rom, state, address);
        let place = usize::from(address);
        if place < RAM {
            let first = BANK * usize::from(node.bank()) + place % BANK;
            mark(self.rom.as_mut_slice(), first, length);
        } else {
            mark(self.ram.as_mut_slice(), place - RAM, length);
        }
    }

    /// The runs, bank by bank, and then those in RAM.
    fn add_all(&self, banks: u16, runs: &mut Vec<CodeRun>) -> Result<(), AllocError> {
        for bank in 0..banks {
            let first = BANK * usize::from(bank);
            let marks = self.rom.get(first..first + BANK).unwrap_or(&[]);
            add_runs(runs, Some(bank), 0, marks)?;
        }
        add_runs(runs, None, 0x8000, self.ram.as_slice())
    }

    /// The runs, bank by bank, and then those in RAM.
    pub(crate) fn runs(&self, alloc: Global, banks: u16) -> Result<Vec<CodeRun>, AllocError> {
        let mut runs = Vec::new(alloc);
        self.add_all(banks, &mut runs)?;
        Ok(runs)
    }
}
