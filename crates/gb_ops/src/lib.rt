//! The machine: its definitions in `specs/`, and the opcode table and the types of its states in code.
//!
//! `decode` is the table, row by row, and `map::plain_storage_reads_back` is the law of its memory. Read
//! `op` and `decode` first, then `machine` and `registers` with `specs/Machine.antt` (one event) and
//! `specs/Play.antt` (runs), and `map` with `specs/Memory.antt` and `specs/ReadsBack.antt`.
#![tactic(auto)]

pub mod decode;
pub mod machine;
pub mod map;
pub mod op;
mod pointers;
pub mod registers;

pub use machine::{
    Banks, CodePlace, Computed, Effect, Event, Faults, Kind, Loaded, Mapped, Read, ReadSource,
    Region, Write,
};
pub use op::{
    AluOp, Condition, Indirect, Op, Operand, Pair, Pointer, Register, Row, Shift, StackPair,
};
pub use registers::{Flags, Ime, Processor, Registers};
