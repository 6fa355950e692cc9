//! The addresses where RST and interrupts go, and the interrupts by name.

/// Where RST 38 goes: unused ROM is filled with its opcode FF.
pub const PADDING: u16 = 0x0038;

/// Where VBlank goes; the vectors of the other interrupts follow it, 8 bytes apart (Pan Docs: Jump Vectors).
const FIRST_VECTOR: u16 = 0x0040;

/// How many interrupts there are.
pub const INTERRUPT_COUNT: u8 = 5;

/// The address after all vectors.
pub const AFTER_VECTORS: u16 = 0x0068;

/// The address of an interrupt's handler, by its bit of IE.
pub fn vector_of(bit: u8) -> u16 {
    FIRST_VECTOR.wrapping_add(u16::from(bit).wrapping_mul(8))
}

/// The interrupt of a bit of IE, counted from 0, with its vector (Pan Docs: Interrupt Sources).
pub fn interrupt_name(bit: u8) -> &'static str {
    match bit {
        0 => "VBlank ($40)",
        1 => "STAT ($48)",
        2 => "timer ($50)",
        3 => "serial ($58)",
        _ => "joypad ($60)",
    }
}

/// The interrupt whose handler begins at an address, with that address.
pub fn interrupt_at(address: u16) -> Option<&'static str> {
    for bit in 0..INTERRUPT_COUNT {
        if vector_of(bit) == address {
            return Some(interrupt_name(bit));
        }
    }
    None
}
