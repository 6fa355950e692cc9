//! Objects over background and window, sixteen pixels at once.

ghost use Rattle.std.specs.Prelude.{◌≡◌, ◌<◌, ◌≤◌, ◌+◌, ◌%◌, ◌↔◌, ℕ, true, IsTrue, if◌then◌else◌, slice_index};
ghost use Rattle.gb_ppu.specs.Lanes.{HasLanes};
ghost use Rattle.gb_ppu.specs.Seen.{seen};
ghost use Rattle.gb_ppu.specs.Tiles.{shade_of};
ghost use Rattle.gb_ppu.specs.Control.{has_background};
ghost use Rattle.gb_ppu.specs.FrontLine.{by_palette, over, mixed_by, mixed_byte};

use crate::control::has_background;
use crate::lanes::{put_sixteen, shades, sixteen_at};
use crate::line::{EDGE, PADDED, WIDTH};
use crate::scene::Scene;
use std::simd::prelude::*;

/// The palettes that a line is drawn with.
#[derive(Clone, Copy)]
struct Palettes {
    /// Of background and window, all light where they're off.
    background: u8,
    first: u8,
    second: u8,
}

/// The palettes of a scene.
fn palettes_of(scene: &Scene<'_>) -> Palettes
    ensures background { result.background ≡ (if has_background scene.now.lcdc then scene.now.bgp else 0) }
    ensures first { result.first ≡ scene.now.obp0 }
    ensures second { result.second ≡ scene.now.obp1 }
{
    Palettes {
        background: if has_background(scene.lcdc) {
            scene.bgp
        } else {
            0
        },
        first: scene.obp0,
        second: scene.obp1,
    }
}

/// The colours of objects' pixels.
#[inline(always)]
fn colours_of(pixels: u8x16) -> u8x16
    ensures { HasLanes 16 result (λ i. slice_index pixels i % 4) }
{
    pixels & u8x16::splat(3)
}

/// The first shades where the objects' palette is the first one, else the second ones.
#[inline(always)]
fn by_palette(pixels: u8x16, first: u8x16, second: u8x16) -> u8x16
    ensures { HasLanes 16 result (λ i. by_palette (slice_index pixels i) (slice_index first i) (slice_index second i)) }
{
    (pixels & u8x16::splat(0x10))
        .simd_eq(u8x16::splat(0))
        .select(first, second)
}

/// The shades of objects' pixels.
#[inline(always)]
fn object_shades(palettes: Palettes, pixels: u8x16) -> u8x16
    ensures { HasLanes 16 result (λ i. by_palette (slice_index pixels i) (shade_of palettes.first (slice_index pixels i % 4)) (shade_of palettes.second (slice_index pixels i % 4))) }
{
    let colours = colours_of(pixels);
    by_palette(
        pixels,
        shades(palettes.first, colours),
        shades(palettes.second, colours),
    )
}

/// Of the shades below and above, those that show.
#[inline(always)]
fn over(colours: u8x16, pixels: u8x16, below: u8x16, above: u8x16) -> u8x16
    ensures { HasLanes 16 result (λ i. over (slice_index colours i) (slice_index pixels i) (slice_index below i) (slice_index above i)) }
{
    let nothing = u8x16::splat(0);
    let hiding = pixels.simd_ge(u8x16::splat(0x80)).select(colours, nothing);
    let shown = hiding.simd_eq(nothing).select(above, below);
    colours_of(pixels).simd_eq(nothing).select(below, shown)
}

/// Whether no lane has anything.
#[inline(always)]
fn is_zero(lanes: u8x16) -> bool
    ensures { IsTrue result → HasLanes 16 lanes (λ _. 0) }
{
    lanes.simd_ne(u8x16::splat(0)).to_bitmask() == 0
}

/// The shades of sixteen pixels.
#[inline(always)]
fn mix(palettes: Palettes, colours: u8x16, pixels: u8x16) -> u8x16
    requires { (i : ℕ) → i < 16 → slice_index colours i < 4 }
    ensures { HasLanes 16 result (λ i. mixed_by palettes.background palettes.first palettes.second (slice_index colours i) (slice_index pixels i)) }
{
    let below = shades(palettes.background, colours);
    if is_zero(pixels) {
        return below;
    }
    over(colours, pixels, below, object_shades(palettes, pixels))
}

/// Mixes a line's colours of background and window with its pixels of objects.
#[inline(always)]
pub(crate) fn mix_line(
    scene: &Scene<'_>,
    colours: &[u8; PADDED],
    pixels: &[u8; PADDED],
    line: &mut [u8; WIDTH],
)
    requires { (x : ℕ) → x < WIDTH → slice_index colours.now (x + EDGE) < 4 }
    ensures { (x : ℕ) → x < WIDTH → slice_index line.new x ≡ mixed_byte (seen scene.now) (slice_index colours.now (x + EDGE)) (slice_index pixels.now (x + EDGE)) }
{
    let palettes = palettes_of(scene);
    let mut x = 0;
    while x < WIDTH {
        let below = sixteen_at(colours, x + EDGE);
        let above = sixteen_at(pixels, x + EDGE);
        put_sixteen(line, x, mix(palettes, below, above));
        x += 16;
    }
}
