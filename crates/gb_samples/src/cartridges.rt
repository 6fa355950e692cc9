//! Cartridges' files.

ghost use Rattle.std.specs.Prelude.{◌≡◌, ◌≤◌, IfOk, length, vec_len};

use std::alloc::{AllocError, Global};

/// The bytes of the smallest cartridge.
pub const SMALLEST: usize = 0x8000;

/// NOP and a jump to 0150, as each sample has them at 0100.
const START: &[u8] = &[0x00, 0xC3, 0x50, 0x01];

/// A cartridge's type, ROM size and RAM size, as they stand at 0147 to 0149.
pub type Sizes = [u8; 3];

/// A type alone, with 32 KiB of ROM and no RAM.
pub const PLAIN: Sizes = [0x00, 0x00, 0x00];

/// Puts a piece at a place, as far as there is room.
pub fn put(bytes: &mut [u8], first: usize, piece: &[u8])
    ensures { length bytes.new ≡ length bytes.old }
{
    for (i, byte) in piece.iter().enumerate() {
        if let Some(to) = bytes.get_mut(first.wrapping_add(i)) {
            *to = *byte;
        }
    }
}

/// Puts single bytes at their places.
pub fn replace(bytes: &mut [u8], changes: &[(usize, u8)])
    ensures { length bytes.new ≡ length bytes.old }
{
    for (offset, value) in changes {
        put(bytes, *offset, &[*value]);
    }
}

/// The checksum of a header (Pan Docs, The Cartridge Header): from 0, less each byte of 0134 to 014C, less 1.
fn checksum(bytes: &[u8]) -> u8
    requires { 0x150 ≤ length bytes.now }
{
    let mut sum = 0u8;
    for byte in &bytes[0x134..0x14D] {
        sum = sum.wrapping_sub(*byte).wrapping_sub(1);
    }
    sum
}

/// Puts the start, the header's sizes with their checksum, and a program at 0150.
fn fill(bytes: &mut [u8], sizes: Sizes, program: &[u8])
    requires { 0x150 ≤ length bytes.old }
    ensures { length bytes.new ≡ length bytes.old }
{
    put(bytes, 0x100, START);
    put(bytes, 0x147, &sizes);
    put(bytes, 0x14D, &[checksum(bytes)]);
    put(bytes, 0x150, program);
}

/// A cartridge of 32 KiB: NOP and a jump from 0100 to this program at 0150, and 00 elsewhere.
pub fn small(sizes: Sizes, program: &[u8]) -> [u8; SMALLEST] {
    let mut bytes = [0; SMALLEST];
    fill(&mut bytes, sizes, program);
    bytes
}

/// A file of this length that begins as `small` does.
pub fn file(
    alloc: Global,
    length: usize,
    sizes: Sizes,
    program: &[u8],
) -> Result<Vec<u8>, AllocError>
    requires { 0x150 ≤ length }
    ensures { IfOk result (λ bytes. vec_len bytes ≡ length) }
{
    let mut bytes = vec![in alloc; 0; length]?;
    fill(bytes.as_mut_slice(), sizes, program);
    Ok(bytes)
}
