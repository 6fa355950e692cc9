//! Which registers hold the address of the byte that an instruction loads or stores, and which register it stores.

ghost use Rattle.std.specs.Prelude.{◌≡◌};
ghost use Rattle.gb_ops.specs.Pointers as Pointers;

use crate::op::{Indirect, Op, Operand, Pointer, Register};

impl Pointer {
    /// The register of the address's high byte; none where that is FF.
    #[tactic(auto, unfolding(crate::specs::Pointers::high_register))]
    pub fn high(self) -> Option<Register>
        ensures { result ≡ Pointers.high_register self }
    {
        match self {
            Pointer::Bc => Some(Register::B),
            Pointer::De => Some(Register::D),
            Pointer::Hl => Some(Register::H),
            Pointer::HighC => None,
        }
    }

    /// The register of the address's low byte.
    #[tactic(auto, unfolding(crate::specs::Pointers::low_register))]
    pub fn low(self) -> Register
        ensures { result ≡ Pointers.low_register self }
    {
        match self {
            Pointer::Bc | Pointer::HighC => Register::C,
            Pointer::De => Register::E,
            Pointer::Hl => Register::L,
        }
    }
}

/// What `LD A,(..)` and `LD (..),A` find their address by.
#[tactic(auto, unfolding(crate::specs::Pointers::indirect_pointer))]
fn indirect_pointer(to: Indirect) -> Pointer
    ensures { result ≡ Pointers.indirect_pointer to }
{
    match to {
        Indirect::Bc => Pointer::Bc,
        Indirect::De => Pointer::De,
        Indirect::HlIncrement | Indirect::HlDecrement => Pointer::Hl,
    }
}

/// What an operand is found by, where it is a byte in memory.
#[tactic(auto, unfolding(crate::specs::Pointers::operand_pointer))]
fn operand_pointer(operand: Operand) -> Option<Pointer>
    ensures { result ≡ Pointers.operand_pointer operand }
{
    match operand {
        Operand::Register(_) => None,
        Operand::AtHl => Some(Pointer::Hl),
    }
}

impl Op {
    /// By what the instruction finds the byte in memory that it loads or stores. None where it names the address, goes by
    /// SP, or has no such byte (Pan Docs: CPU Instruction Set).
    #[tactic(auto, unfolding(crate::specs::Pointers::pointer_of, crate::specs::Pointers::either_pointer))]
    pub fn pointer(self) -> Option<Pointer>
        ensures { result ≡ Pointers.pointer_of self }
    {
        match self {
            Op::StoreA(to) => Some(indirect_pointer(to)),
            Op::LoadA(from) => Some(indirect_pointer(from)),
            Op::Load(Operand::AtHl, _) => Some(Pointer::Hl),
            Op::Load(Operand::Register(_), operand)
            | Op::Increment(operand)
            | Op::Decrement(operand)
            | Op::LoadImmediate(operand, _)
            | Op::Alu(_, operand)
            | Op::Shift(_, operand)
            | Op::Bit(_, operand)
            | Op::Reset(_, operand)
            | Op::Set(_, operand) => operand_pointer(operand),
            Op::StoreHighC | Op::LoadHighC => Some(Pointer::HighC),
            _ => None,
        }
    }

    /// The register whose byte the instruction stores as it is. None for a push, which stores a word.
    #[tactic(auto, unfolding(crate::specs::Pointers::stored_of, crate::specs::Pointers::register_stored))]
    pub fn stored(self) -> Option<Register>
        ensures { result ≡ Pointers.stored_of self }
    {
        match self {
            Op::Load(Operand::AtHl, Operand::Register(from)) => Some(from),
            Op::StoreA(_) | Op::StoreHigh(_) | Op::StoreHighC | Op::StoreAbsolute(_) => {
                Some(Register::A)
            }
            _ => None,
        }
    }
}

/// The law of pointers: an instruction's byte in memory is where its pointer points, and what it stores is its register's
/// byte. It is stated over the definitions of what instructions read and do.
pub fn pointers_are_followed()
    ensures pointed { Pointers.GoesByPointers }
    ensures stored { Pointers.StoresRegisters }
{}
