//! What the machine's states, events and accesses are made of.

use crate::registers::{Flags, Processor};

/// What an instruction reads besides its own bytes.
#[derive(Clone, Copy, PartialEq, Eq)]
pub enum Read {
    Nothing,
    Byte(u16),
    /// The byte at an address, and then the one behind it.
    Word(u16),
}

/// What an instruction writes.
#[derive(Clone, Copy, PartialEq, Eq)]
pub enum Write {
    Nothing,
    Byte(u16, u8),
    /// The low byte at an address, and then the high byte behind it.
    Word(u16, u16),
    /// A word on the stack: the high byte just below SP, and then the low byte below that.
    Push(u16, u16),
}

/// What the reads of an instruction gave.
#[derive(Clone, Copy, PartialEq, Eq)]
pub struct Loaded {
    pub low: u8,
    pub high: u8,
}

/// A byte and the flags that computing it leaves.
#[derive(Clone, Copy, PartialEq, Eq)]
pub struct Computed {
    pub value: u8,
    pub flags: Flags,
}

/// What an instruction does, once its reads are answered.
#[derive(Clone, Copy, PartialEq, Eq)]
pub struct Effect {
    pub processor: Processor,
    pub write: Write,
    /// Whether its condition is met; an instruction without one is taken.
    pub is_taken: bool,
}

/// One atomic action of the machine, at an instruction boundary.
#[derive(Clone, Copy, Debug, PartialEq, Eq)]
pub enum Event {
    /// One instruction, with the bytes that free reads give: of its own bytes, and of its data.
    Run { fetch: [u8; 3], reads: [u8; 2] },
    /// HALT with interrupts pending and one that is enabled and requested.
    HaltStay,
    /// HALT with interrupts off and one that is enabled and requested.
    HaltBug,
    /// An interrupt's dispatch.
    Irq(u8),
    /// So many M-cycles pass.
    Wait(u64),
}

/// What the memory map has at an address.
#[derive(Clone, Copy, PartialEq, Eq)]
pub enum Mapped {
    Rom,
    CartridgeRam,
    /// A byte of work RAM, by its index; its echo is the same byte.
    WorkRam(u16),
    /// A byte of high RAM, by its index.
    HighRam(u16),
    InterruptEnable,
    /// FF46, whose write starts an OAM transfer.
    Transfer,
    /// Video RAM, OAM, and the other I/O registers.
    Hardware,
}

/// What answers a read at an address.
#[derive(Clone, Copy, PartialEq, Eq)]
pub enum ReadSource {
    /// A ROM bank.
    Rom(u16),
    /// Plain storage: what is read is what was written.
    Plain,
    /// Hardware, or anything that a transfer closes: any byte.
    Free,
}

/// The registers of a cartridge's controller, as they were written.
#[derive(Clone, Copy, PartialEq, Eq)]
pub struct Banks {
    pub bank: u16,
    pub second: u8,
    /// Whether the gate to cartridge RAM is open.
    pub gate: bool,
    pub mode: bool,
}

/// The declared stack region, its last address included.
#[derive(Clone, Copy, PartialEq, Eq)]
pub struct Region {
    pub first: u16,
    pub last: u16,
}

/// Which faults an event has.
#[derive(Clone, Copy, PartialEq, Eq)]
pub struct Faults {
    /// An undefined opcode was executed.
    pub undefined_opcode: bool,
    /// A byte of an instruction came from elsewhere than ROM, work RAM or high RAM.
    pub fetched_outside: bool,
    /// A push, a call or a dispatch stored outside the declared region.
    pub stack_outside: bool,
    /// Cartridge RAM was met with the gate closed, or where there is none.
    pub ram_closed: bool,
    /// A byte outside high RAM was met during a transfer.
    pub transfer_met: bool,
}

/// Where a byte of an instruction was fetched: the address, and the ROM bank shown there.
#[derive(Clone, Copy, PartialEq, Eq)]
pub struct CodePlace {
    pub address: u16,
    pub bank: u16,
}

/// The kinds of cartridge controllers.
#[derive(Clone, Copy, PartialEq, Eq)]
pub enum Kind {
    Rom,
    Mbc1,
    Mbc3,
    Mbc5,
}
