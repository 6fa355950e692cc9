//! Background and window along a line.

ghost use Rattle.std.specs.Prelude.{◌≡◌, ◌<◌, ◌≤◌, ◌+◌, ◌-◌, ◌*◌, ◌%◌, ℕ, slice_index, replicate};
ghost use Rattle.gb_ppu.specs.Maps.{map_colour};
ghost use Rattle.gb_ppu.specs.Pixel.{background_colour, window_row};
ghost use Rattle.gb_ppu.specs.Seen.{seen};
ghost use Rattle.gb_ppu.specs.Layers.{or_below};

use crate::control::{has_background, has_bit, has_window};
use crate::lanes::{put_eight, tile_row};
use crate::line::{EDGE, HEIGHT, PADDED, WIDTH};
use crate::maps;
use crate::scene::Scene;

/// Draws the tiles of a map's row v from a byte of a padded line on, the first of them at column u of the map.
fn draw_tiles(
    scene: &Scene<'_>,
    is_second: bool,
    u: u8,
    v: u8,
    from: usize,
    colours: &mut [u8; PADDED],
)
    requires { u % 8 ≡ 0 }
    ensures drawn { (i : ℕ) → from ≤ i → i < WIDTH + EDGE → slice_index colours.new i ≡ map_colour scene.now.video_ram.now scene.now.lcdc is_second ((u + (i - from)) % 256) v }
    ensures kept { (i : ℕ) → i < from → slice_index colours.new i ≡ slice_index colours.old i }
{
    let mut column = u;
    let mut at = from;
    while at < WIDTH + EDGE {
        let row = maps::tile_row(scene.video_ram, scene.lcdc, is_second, column, v);
        put_eight(colours, at, tile_row(row.low, row.high));
        column = column.wrapping_add(8);
        at += 8;
    }
}

/// Draws the window's colours, where it shows.
fn draw_window(scene: &Scene<'_>, colours: &mut [u8; PADDED])
    ensures { (x : ℕ) → x < WIDTH → slice_index colours.new (x + EDGE) ≡ or_below (seen scene.now) x (slice_index colours.old (x + EDGE)) (window_row (seen scene.now) x) }
{
    if !has_window(scene.lcdc) {
        return;
    }
    if scene.wx > 166 {
        return;
    }
    if let Some(row) = scene.window_line {
        let from = usize::from(scene.wx) + 1;
        draw_tiles(scene, has_bit(6, scene.lcdc), 0, row, from, colours);
    }
}

/// A padded line of colour 0.
fn blank_line() -> [u8; PADDED]
    ensures { result ≡ replicate PADDED 0 }
{
    [0; PADDED]
}

/// The colours of background and window along a padded line, 0 where they're off.
pub(crate) fn background_line(scene: &Scene<'_>, y: u8) -> [u8; PADDED]
    requires { y < HEIGHT }
    ensures { (x : ℕ) → x < WIDTH → slice_index result (x + EDGE) ≡ background_colour (seen scene.now) x y }
{
    let mut colours = blank_line();
    if has_background(scene.lcdc) {
        let v = y.wrapping_add(scene.scy);
        let hidden = scene.scx % 8;
        let from = EDGE - usize::from(hidden);
        draw_tiles(
            scene,
            has_bit(3, scene.lcdc),
            scene.scx - hidden,
            v,
            from,
            &mut colours,
        );
        draw_window(scene, &mut colours);
    }
    colours
}
