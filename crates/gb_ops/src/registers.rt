//! The registers of the processor.

ghost use Rattle.std.specs.Prelude.{◌≡◌};
ghost use Rattle.gb_ops.specs.Registers.{get, set};

use crate::op::Register;

/// One value for each eight-bit register but F.
#[derive(Clone, Copy, PartialEq, Eq)]
pub struct Registers<T> {
    pub a: T,
    pub b: T,
    pub c: T,
    pub d: T,
    pub e: T,
    pub h: T,
    pub l: T,
}

impl<T: Copy> Registers<T> {
    /// The value of a register.
    #[inline(always)]
    pub fn get(&self, register: Register) -> T
        ensures { result ≡ get register self.now }
    {
        match register {
            Register::A => self.a,
            Register::B => self.b,
            Register::C => self.c,
            Register::D => self.d,
            Register::E => self.e,
            Register::H => self.h,
            Register::L => self.l,
        }
    }

    /// Gives a register a value; the others stay.
    #[inline(always)]
    pub fn set(&mut self, register: Register, value: T)
        ensures { self.new ≡ set register value self.old }
    {
        match register {
            Register::A => self.a = value,
            Register::B => self.b = value,
            Register::C => self.c = value,
            Register::D => self.d = value,
            Register::E => self.e = value,
            Register::H => self.h = value,
            Register::L => self.l = value,
        }
    }
}

/// The flags of F: bits 7 to 4; its other bits are always 0.
#[derive(Clone, Copy, PartialEq, Eq)]
pub struct Flags {
    pub zero: bool,
    pub subtract: bool,
    pub half_carry: bool,
    pub carry: bool,
}

/// Whether interrupts are dispatched. Pending becomes on after the next instruction.
#[derive(Clone, Copy, PartialEq, Eq)]
pub enum Ime {
    Off,
    Pending,
    On,
}

/// The processor's part of a machine state.
#[derive(Clone, Copy, PartialEq, Eq)]
pub struct Processor {
    pub registers: Registers<u8>,
    pub flags: Flags,
    pub sp: u16,
    pub pc: u16,
    pub ime: Ime,
    /// The first byte of the next instruction is read twice.
    pub halt_mark: bool,
    /// An undefined opcode was executed.
    pub locked: bool,
    /// STOP was executed.
    pub stopped: bool,
}
