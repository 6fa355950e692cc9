//! Small programs, as they stand at 0150.

/// JR to itself.
pub const LOOP: &[u8] = &[0x18, 0xFE];

/// An undefined opcode.
pub const UNDEFINED: &[u8] = &[0xD3];

/// STOP.
pub const STOPS: &[u8] = &[0x10, 0x00];

/// LD SP,8000, and JR to itself.
pub const ROM_STACK: &[u8] = &[0x31, 0x00, 0x80, 0x18, 0xFE];

/// LD SP,E000; LD A,01; LDH (FF),A; EI; HALT; JR to the HALT: VBlank's interrupt leads to 0040 and back.
pub const WAITS: &[u8] = &[
    0x31, 0x00, 0xE0, 0x3E, 0x01, 0xE0, 0xFF, 0xFB, 0x76, 0x18, 0xFD,
];

/// Locks where the key A is held: LD A,10; LDH (00),A; then LDH A,(00); AND 01; JR NZ; and an undefined opcode at 015A.
pub const LOCKS_AT_A: &[u8] = &[
    0x3E, 0x10, 0xE0, 0x00, 0xF0, 0x00, 0xE6, 0x01, 0x20, 0xFA, 0xD3,
];

/// On MBC3 with a clock: opens it, latches its seconds over and over, and locks at 0168 once they aren't 0.
pub const WAITS_A_SECOND: &[u8] = &[
    0x3E, 0x0A, 0xEA, 0x00, 0x00, 0x3E, 0x08, 0xEA, 0x00, 0x40, 0xAF, 0xEA, 0x00, 0x60, 0x3C, 0xEA,
    0x00, 0x60, 0xFA, 0x00, 0xA0, 0xA7, 0x28, 0xF2, 0xD3,
];

/// Turns the picture off, copies the 48 bytes at 0200 to tiles 1 to 3 and the 44 bytes behind them to OAM, puts tile 3
/// at column 2 of the map, gives colours their own shades (BGP = OBP0 = E4), and turns the picture on (LCDC = 93).
pub const DRAWS: &[u8] = &[
    0x3E, 0x11, 0xE0, 0x40, 0x11, 0x00, 0x02, 0x21, 0x10, 0x80, 0x06, 0x30, 0x1A, 0x22, 0x13, 0x05,
    0x20, 0xFA, 0x21, 0x00, 0xFE, 0x06, 0x2C, 0x1A, 0x22, 0x13, 0x05, 0x20, 0xFA, 0x3E, 0x03, 0xEA,
    0x02, 0x98, 0x3E, 0xE4, 0xE0, 0x47, 0xE0, 0x48, 0x3E, 0x93, 0xE0, 0x40, 0x18, 0xFE,
];

/// The bytes of tile 1, all of colour 3, tile 2, all of colour 1, and tile 3, all of colour 2.
pub fn tiles() -> [u8; 48] {
    let mut bytes = [0; 48];
    for (i, byte) in bytes.iter_mut().enumerate() {
        *byte = match i {
            0..=15 => 0xFF,
            16..=31 => 0xFF * u8::from(i % 2 == 0),
            _ => 0xFF * u8::from(i % 2 == 1),
        };
    }
    bytes
}

/// Y, X, tile and attributes of eleven objects on lines 0 to 7: two at column 0, of which the earlier wins, one behind
/// the background's colours, seven side by side, and one too many.
pub const OBJECTS: [u8; 44] = [
    16, 8, 1, 0, 16, 8, 2, 0, 16, 24, 1, 0x80, 16, 32, 1, 0, 16, 40, 1, 0, 16, 48, 1, 0, 16, 56, 1,
    0, 16, 64, 1, 0, 16, 72, 1, 0, 16, 80, 1, 0, 16, 96, 1, 0,
];

/// The first line of these tiles and objects: its shades with how many pixels of each.
pub const FIRST_LINE: [(u8, usize); 5] = [(3, 8), (0, 8), (2, 8), (3, 56), (0, 80)];
