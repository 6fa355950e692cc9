//! Tiles of background and window.

ghost use Rattle.std.specs.Prelude.{◌≡◌, ◌<◌, ◌≤◌, ◌+◌};
ghost use Rattle.gb_ppu.specs.Maps.{tile_offset, map_offset, tile_index, tile_row};

use crate::control::has_bit;
use crate::scene::VIDEO_RAM;

/// Where the data of a tile begins in video RAM.
#[tactic(auto, unfolding(crate::specs::Maps::tile_offset))]
fn tile_offset(lcdc: u8, index: u8) -> usize
    ensures value { result ≡ tile_offset lcdc index }
    ensures within { result < 0x1800 }
{
    let place = 16 * usize::from(index);
    if has_bit(4, lcdc) {
        place
    } else if index < 128 {
        0x1000 + place
    } else {
        place
    }
}

/// Where a map begins in video RAM.
#[tactic(auto, unfolding(crate::specs::Maps::map_offset))]
fn map_offset(is_second: bool) -> usize
    ensures value { result ≡ map_offset is_second }
    ensures within { result ≤ 0x1C00 }
{
    if is_second { 0x1C00 } else { 0x1800 }
}

/// The index of the tile at a point of a map.
#[tactic(auto, unfolding(crate::specs::Maps::tile_index))]
fn tile_index(video_ram: &[u8; VIDEO_RAM], is_second: bool, u: u8, v: u8) -> u8
    ensures { result ≡ tile_index video_ram.now is_second u v }
{
    video_ram[map_offset(is_second) + 32 * usize::from(v / 8) + usize::from(u / 8)]
}

/// A row of a tile: its two bit planes.
#[derive(Clone, Copy)]
pub(crate) struct TileRow {
    pub low: u8,
    pub high: u8,
}

/// The row of a tile at a point of a map.
#[tactic(auto, unfolding(crate::specs::Maps::tile_row))]
pub(crate) fn tile_row(
    video_ram: &[u8; VIDEO_RAM],
    lcdc: u8,
    is_second: bool,
    u: u8,
    v: u8,
) -> TileRow
    ensures { result ≡ tile_row video_ram.now lcdc is_second u v }
{
    let offset = tile_offset(lcdc, tile_index(video_ram, is_second, u, v));
    let place = offset + 2 * usize::from(v % 8);
    TileRow {
        low: video_ram[place],
        high: video_ram[place + 1],
    }
}
