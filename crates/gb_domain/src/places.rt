//! Places that hold one and the same byte, and what the flags say of it (own format).

ghost use Rattle.std.specs.Prelude.{◌≡◌};
ghost use Rattle.gb_domain.specs.Areas.{is_item};
ghost use Rattle.gb_domain.specs.Places.{is_same_register, no_byte};
ghost use Rattle.gb_domain.specs.RelationRules.{is_some_register, has_place};

use gb_ops::machine::Region;
use gb_ops::op::Register;
use gb_ops::registers::Registers;

/// A place that holds a byte: a register, or an address of RAM, which in the stack region is one of the procedure's items.
#[derive(Clone, Copy)]
pub enum Place {
    Register(Register),
    Address(u16),
}

/// The stack, as far as it is known where its bytes lie: its region, and how many items lie below the base. A base of 0 isn't known.
#[derive(Clone, Copy)]
pub struct StackBytes {
    pub region: Region,
    pub base: u16,
    pub count: u8,
}

impl StackBytes {
    /// Whether an address is that of an item.
    pub fn is_item(self, address: u16) -> bool
        ensures { result ≡ is_item self.base self.count address }
    {
        address < self.base && u32::from(self.base) <= u32::from(address) + u32::from(self.count)
    }
}

/// What the flags say of a byte.
#[derive(Clone, Copy)]
pub enum Test {
    /// Z is set exactly where the byte is this one, and C exactly where it is below it.
    Compare(u8),
    /// Z is set exactly where the byte has none of these bits.
    Bits(u8),
}

/// Some places that hold one and the same byte, and what the flags say of it.
#[derive(Clone, Copy)]
pub struct OneByte {
    /// Which registers are among them.
    pub registers: Registers<bool>,
    /// Which address is among them. In the stack region it is an item's.
    pub address: Option<u16>,
    pub test: Option<Test>,
}

/// No register.
pub const NO_REGISTER: Registers<bool> = Registers {
    a: false,
    b: false,
    c: false,
    d: false,
    e: false,
    h: false,
    l: false,
};

/// Whether two registers are one.
pub fn is_same_register(x: Register, y: Register) -> bool
    ensures { result ≡ is_same_register x y }
{
    x == y
}

/// Whether there is a register among them.
pub fn is_some_register(registers: &Registers<bool>) -> bool
    ensures { result ≡ is_some_register registers.now }
{
    registers.a
        || registers.b
        || registers.c
        || registers.d
        || registers.e
        || registers.h
        || registers.l
}

/// Whether there is a place.
pub fn has_place(byte: &OneByte) -> bool
    ensures { result ≡ has_place byte.now }
{
    byte.address.is_some() || is_some_register(&byte.registers)
}

impl Default for OneByte {
    ghost is_default = { λ byte. byte ≡ no_byte };

    /// No place, and nothing is said.
    fn default() -> OneByte {
        OneByte {
            registers: NO_REGISTER,
            address: None,
            test: None,
        }
    }
}
