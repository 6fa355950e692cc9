//! Sets of registers.

use gb_verify::gb_ops::op::{Pointer, Register};
use gb_verify::gb_ops::registers::Registers;

/// All registers, in the order of their letters.
pub const REGISTERS: [Register; 7] = [
    Register::A,
    Register::B,
    Register::C,
    Register::D,
    Register::E,
    Register::H,
    Register::L,
];

/// A set of registers.
#[derive(Clone, Copy, PartialEq, Eq)]
pub struct RegisterSet {
    members: Registers<bool>,
}

/// Whether a register is among others.
fn is_among(register: Register, registers: &[Register]) -> bool {
    registers.iter().any(|member| *member == register)
}

impl RegisterSet {
    /// These registers.
    pub fn of(registers: &[Register]) -> RegisterSet {
        RegisterSet {
            members: Registers {
                a: is_among(Register::A, registers),
                b: is_among(Register::B, registers),
                c: is_among(Register::C, registers),
                d: is_among(Register::D, registers),
                e: is_among(Register::E, registers),
                h: is_among(Register::H, registers),
                l: is_among(Register::L, registers),
            },
        }
    }

    /// The registers that hold a pointer's address.
    pub fn of_pointer(pointer: Pointer) -> RegisterSet {
        let mut registers = RegisterSet::of(&[pointer.low()]);
        if let Some(high) = pointer.high() {
            registers.insert(high);
        }
        registers
    }

    /// No register.
    pub fn empty() -> RegisterSet {
        RegisterSet::of(&[])
    }

    /// All registers.
    pub fn all() -> RegisterSet {
        RegisterSet::of(&REGISTERS)
    }

    pub fn contains(&self, register: Register) -> bool {
        self.members.get(register)
    }

    pub fn insert(&mut self, register: Register) {
        self.members.set(register, true);
    }

    pub fn is_empty(&self) -> bool {
        *self == RegisterSet::empty()
    }

    /// The registers of either set.
    pub fn union(&self, other: &RegisterSet) -> RegisterSet {
        let mut set = *self;
        for register in &REGISTERS {
            if other.contains(*register) {
                set.insert(*register);
            }
        }
        set
    }

    /// Whether each of its registers is one of the other set's.
    pub fn is_inside(&self, other: &RegisterSet) -> bool {
        REGISTERS.iter().all(|register| !self.contains(*register) || other.contains(*register))
    }
}
