//! Certificates' bytes.

ghost use Rattle.std.specs.Prelude.{◌≡◌, length};

use crate::cartridges::put;

/// The magic, the version, the stack region DF00 to DFFF, one procedure, three nodes; then main: its entry, need and
/// ranges, and that it doesn't return.
const HEAD: [u8; 18] = [
    0x47, 0x42, 0x42, 0x43, 0x01, 0x00, 0xDF, 0xFF, 0xDF, 0x01, 0x03, 0x00, 0x00, 0x00, 0x00, 0x00,
    0x00, 0x00,
];

/// Power-up: IME off, no transfer, the controller as it starts and kept, F = B0, IE = 00, A to L, no items and no cells.
const STATE: [u8; 42] = [
    0x01, 0x00, 0x00, 0x00, 0x00, 0x01, 0x00, 0x01, 0x00, 0x00, 0x00, 0x01, 0x01, 0x01, 0xB4, 0x02,
    0x00, 0x00, 0x09, 0x01, 0x01, 0x01, 0x00, 0x00, 0x03, 0x13, 0x13, 0x04, 0x00, 0x00, 0x05, 0xD8,
    0xD8, 0x06, 0x01, 0x01, 0x07, 0x4D, 0x4D, 0x08, 0x00, 0x00,
];

/// Writes a certificate with one node for each address, in bank 0 and in the state of power-up, as far as there is room.
/// A node takes 47 bytes behind the 18 of head and main.
pub fn write_nodes(bytes: &mut [u8], addresses: &[u16])
    ensures { length bytes.new ≡ length bytes.old }
{
    put(bytes, 0, &HEAD);
    put(bytes, 10, &[(addresses.len() % 256) as u8]);
    let mut at = 18usize;
    for address in addresses {
        let [low, high] = address.to_le_bytes();
        put(bytes, at, &[0x00, low, high, 0x00, 0x00]);
        put(bytes, at.wrapping_add(5), &STATE);
        at = at.wrapping_add(47);
    }
}

/// The right certificate of the least cartridge, which jumps to 0150 and stays there: three nodes of main.
pub fn least() -> [u8; 159] {
    let mut bytes = [0; 159];
    write_nodes(&mut bytes, &[0x0100, 0x0101, 0x0150]);
    bytes
}

/// The least certificate in version 2, where the number of nodes and main's entry take four bytes.
pub fn least_in_version_2() -> [u8; 163] {
    let mut bytes = [0; 163];
    put(
        &mut bytes,
        0,
        &[
            0x47, 0x42, 0x42, 0x43, 0x02, 0x00, 0xDF, 0xFF, 0xDF, 0x01, 0x03, 0x00, 0x00, 0x00,
        ],
    );
    put(&mut bytes, 22, &least()[18..]);
    bytes
}

/// The least certificate in version 3: main's base, the region's end, stands behind its entry, and of each node's state nothing
/// is known together, as a byte says between the numbers of items and of cells. A node takes 48 bytes behind the 24 of head and
/// main.
pub fn least_in_version_3() -> [u8; 168] {
    let mut bytes = [0; 168];
    let first = least();
    put(
        &mut bytes,
        0,
        &[
            0x47, 0x42, 0x42, 0x58, 0x03, 0x00, 0xDF, 0xFF, 0xDF, 0x01, 0x03, 0x00, 0x00, 0x00,
        ],
    );
    put(&mut bytes, 18, &[0x00, 0xE0]);
    for node in 0..3usize {
        put(
            &mut bytes,
            24 + 48 * node,
            &first[18 + 47 * node..63 + 47 * node],
        );
    }
    bytes
}

/// A certificate of version 4 with a fact, and with a procedure that keeps the byte at C0A0 and puts its stack aside two bytes below
/// its base. A node takes 50 bytes behind the 17 of the head, 8 of the fact, 12 of main and 18 of the other procedure.
pub fn small_in_version_4() -> [u8; 155] {
    let mut bytes = [0; 155];
    put(
        &mut bytes,
        0,
        &[
            0x47, 0x42, 0x42, 0x58, 0x04, 0x00, 0xDF, 0xFF, 0xDF, 0x02, 0x00, 0x02, 0x00, 0x00,
            0x00, 0x01, 0x00, 0x00, 0xC0, 0xF0, 0xC0, 0x10, 0x00, 0x03,
        ],
    );
    // Main: its base and its need.
    put(&mut bytes, 29, &[0x00, 0xE0, 0x03]);
    // Entry 1, need 4, a range, a kept address, a mark.
    put(&mut bytes, 37, &[0x01]);
    put(
        &mut bytes,
        43,
        &[
            0x04, 0x00, 0x01, 0xA0, 0xC0, 0xA0, 0xC0, 0x01, 0xA0, 0xC0, 0x02,
        ],
    );
    let first = least();
    for node in 0..2usize {
        put(
            &mut bytes,
            57 + 50 * node,
            &first[19 + 47 * node..63 + 47 * node],
        );
    }
    put(&mut bytes, 105, &[0x01, 0x00, 0x50, 0x01]);
    // Its stack is set.
    put(&mut bytes, 113, &[0x01]);
    bytes
}

/// A certificate of two procedures with a node each, the second at 4000 in bank 1FF. Main needs 128 words; the other
/// needs 4,096, may write C000 to C0FF and FF80, and returns. From byte 20 on, behind its entry, both versions are alike.
pub fn two_procedures() -> [u8; 168] {
    let mut bytes = [0; 168];
    put(&mut bytes, 0, &HEAD);
    put(&mut bytes, 9, &[0x02, 0x02, 0x00]);
    put(&mut bytes, 14, &[0x80]);
    // Entry 1, need 4,096, two ranges, and an exit with its stack set.
    put(
        &mut bytes,
        18,
        &[
            0x01, 0x00, 0x00, 0x10, 0x02, 0x00, 0xC0, 0xFF, 0xC0, 0x80, 0xFF, 0x80, 0xFF, 0x01,
        ],
    );
    put(&mut bytes, 32, &STATE);
    put(&mut bytes, 34, &[0x01]);
    put(&mut bytes, 74, &[0x00, 0x00, 0x01, 0x00, 0x00]);
    put(&mut bytes, 79, &STATE);
    put(&mut bytes, 121, &[0x01, 0x00, 0x40, 0xFF, 0x01]);
    put(&mut bytes, 126, &STATE);
    put(&mut bytes, 128, &[0x01]);
    bytes
}
