//! What is known of an instruction.

use crate::spelling::Spelling;
use gb_ops::decode::decode;
use std::fmt;

/// What is known of the instruction at an address. It prints the instruction, or says what isn't known.
#[derive(Clone, Copy)]
pub enum Code {
    Instruction(Spelling),
    /// An opcode that is undefined.
    Undefined(u8),
    /// The first byte, where others aren't known.
    Begins(u8),
    Unknown,
}

impl Code {
    /// What is known of the instruction at an address: its bytes, or the first of them, where these are known.
    pub fn of(bytes: Option<[u8; 3]>, opcode: Option<u8>, address: u16) -> Code {
        match (bytes, opcode) {
            (Some(bytes), _) => match decode(&bytes) {
                Some(row) => Code::Instruction(Spelling::new(row, address)),
                None => Code::Undefined(bytes[0]),
            },
            (None, Some(opcode)) => Code::Begins(opcode),
            (None, None) => Code::Unknown,
        }
    }
}

impl fmt::Display for Code {
    fn fmt<W: fmt::Write>(&self, f: &mut fmt::Formatter<W>) -> fmt::Result {
        match *self {
            Code::Instruction(spelling) => write!(f, "{spelling}"),
            Code::Undefined(opcode) => write!(f, "undefined opcode ${opcode:02X}"),
            Code::Begins(opcode) => write!(f, "${opcode:02X} and unknown bytes"),
            Code::Unknown => write!(f, "unknown bytes"),
        }
    }
}
