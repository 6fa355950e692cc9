//! Pixels in lanes: rows of tiles to colours, and colours to shades.

ghost use Rattle.std.specs.Prelude.{◌≡◌, ◌<◌, ◌≤◌, ◌+◌, ◌-◌, ℕ, false, length, slice_index};
ghost use Rattle.std.specs.Simd.Lanes.{chunk, put_chunk};
ghost use Rattle.gb_ppu.specs.Lanes.{HasLanes};
ghost use Rattle.gb_ppu.specs.Tiles.{colour_in, shade_of};

use std::simd::prelude::*;

/// The bit of each column in a bit plane of a tile's row: eight lanes for the low plane, eight for the high one.
const COLUMN_BITS: [u8; 16] = [
    0x80, 0x40, 0x20, 0x10, 0x08, 0x04, 0x02, 0x01, 0x80, 0x40, 0x20, 0x10, 0x08, 0x04, 0x02, 0x01,
];

/// What a set bit counts in each plane.
const PLANE_VALUES: [u8; 16] = [1, 1, 1, 1, 1, 1, 1, 1, 2, 2, 2, 2, 2, 2, 2, 2];

/// The colours of a tile's row, from its two bit planes: lane i is bit 7 - i of `low` plus twice bit 7 - i of `high`.
#[inline(always)]
pub fn tile_row(low: u8, high: u8) -> Simd<u8, 8>
    ensures { HasLanes 8 result (colour_in low high) }
{
    let planes: u8x16 = u8x8::splat(low).shuffle(
        u8x8::splat(high),
        [0, 1, 2, 3, 4, 5, 6, 7, 8, 9, 10, 11, 12, 13, 14, 15],
    );
    let bits = u8x16::from_array(COLUMN_BITS);
    let values = (planes & bits)
        .simd_eq(bits)
        .select(u8x16::from_array(PLANE_VALUES), u8x16::splat(0));
    values.extract::<0, 8>() | values.extract::<8, 8>()
}

/// The shades that a palette gives colours: lane i is bits 2c + 1 and 2c of `palette`, c being lane i of `colours`.
#[inline(always)]
pub fn shades(palette: u8, colours: Simd<u8, 16>) -> Simd<u8, 16>
    requires { (i : ℕ) → i < 16 → slice_index colours i < 4 }
    ensures { HasLanes 16 result (λ i. shade_of palette (slice_index colours i)) }
{
    let by_colour = u8x16::from_array([
        palette % 4,
        (palette >> 2) % 4,
        (palette >> 4) % 4,
        palette >> 6,
        0,
        0,
        0,
        0,
        0,
        0,
        0,
        0,
        0,
        0,
        0,
        0,
    ]);
    by_colour.swizzle_dyn(colours)
}

/// Lanes from right to left.
#[inline(always)]
pub(crate) fn reversed(lanes: u8x8) -> u8x8
    ensures { HasLanes 8 result (λ i. slice_index lanes (7 - i)) }
{
    lanes.reverse()
}

/// Eight bytes from a place on.
#[inline(always)]
pub(crate) fn eight_at(bytes: &[u8], at: usize) -> u8x8
    requires { at + 8 ≤ length bytes.now }
    ensures { result ≡ chunk at 8 bytes.now }
{
    u8x8::from_slice(&bytes[at..])
}

/// Puts eight bytes from a place on.
#[inline(always)]
pub(crate) fn put_eight(bytes: &mut [u8], at: usize, lanes: u8x8)
    requires { at + 8 ≤ length bytes.old }
    ensures { bytes.new ≡ put_chunk at bytes.old lanes }
{
    lanes.copy_to_slice(&mut bytes[at..]);
}

/// Sixteen bytes from a place on.
#[inline(always)]
pub(crate) fn sixteen_at(bytes: &[u8], at: usize) -> u8x16
    requires { at + 16 ≤ length bytes.now }
    ensures { result ≡ chunk at 16 bytes.now }
{
    u8x16::from_slice(&bytes[at..])
}

/// Puts sixteen bytes from a place on.
#[inline(always)]
pub(crate) fn put_sixteen(bytes: &mut [u8], at: usize, lanes: u8x16)
    requires { at + 16 ≤ length bytes.old }
    ensures { bytes.new ≡ put_chunk at bytes.old lanes }
{
    lanes.copy_to_slice(&mut bytes[at..]);
}

/// Whether a lane is below a limit.
#[inline(always)]
pub(crate) fn any_below(lanes: u8x16, limit: u8) -> bool
    ensures { result ≡ false → (i : ℕ) → i < 16 → limit ≤ slice_index lanes i }
{
    lanes.simd_lt(u8x16::splat(limit)).to_bitmask() != 0
}
