//! Objects, and those that a line shows.

ghost use Rattle.std.specs.Prelude.{◌≡◌, ◌<◌, ◌≤◌, ◌+◌, true};

use crate::control::{has_bit, object_height};
use crate::lanes::{reversed, tile_row};
use crate::line::HEIGHT;
use crate::scene::{OAM, VIDEO_RAM};
use std::simd::prelude::*;

/// Objects that one line shows.
pub(crate) const LINE_OBJECTS: usize = 10;

/// Objects that OAM has.
pub(crate) const OBJECTS: usize = 40;

/// An object's four bytes.
#[derive(Clone, Copy)]
pub struct Object {
    pub y: u8,
    pub x: u8,
    pub tile: u8,
    pub attributes: u8,
}

impl Object {
    ghost use Rattle.std.specs.Prelude.{◌≡◌, ◌<◌, ◌≤◌, true};
    ghost use Rattle.gb_ppu.specs.Objects.{object_at, meets_line, object_row, object_tile};
    ghost use Rattle.gb_ppu.specs.FrontLine.{row_colour};
    ghost use Rattle.gb_ppu.specs.Lanes.{HasLanes};

    /// Object i of OAM.
    #[tactic(auto, unfolding(crate::specs::Objects::object_at))]
    pub(crate) fn at(oam: &[u8; OAM], i: usize) -> Object
        requires { i < 40 }
        ensures { result ≡ object_at oam.now i }
    {
        Object {
            y: oam[4 * i],
            x: oam[4 * i + 1],
            tile: oam[4 * i + 2],
            attributes: oam[4 * i + 3],
        }
    }

    /// Whether it has a row on the line.
    #[tactic(auto, unfolding(crate::specs::Objects::meets_line))]
    pub(crate) fn meets_line(self, lcdc: u8, y: u8) -> bool
        requires { y < HEIGHT }
        ensures { result ≡ meets_line lcdc y self }
    {
        self.y <= y + 16 && u16::from(y) + 16 < u16::from(self.y) + u16::from(object_height(lcdc))
    }

    /// The row of its tile that stands on the line.
    #[tactic(auto, unfolding(crate::specs::Objects::object_row, crate::specs::Objects::meets_line, crate::specs::Control::object_height))]
    fn row(self, lcdc: u8, y: u8) -> u8
        requires y_within { y < HEIGHT }
        requires met { meets_line lcdc y self ≡ true }
        ensures value { result ≡ object_row lcdc y self }
        ensures within { result < 16 }
    {
        let row = y + 16 - self.y;
        if has_bit(6, self.attributes) {
            object_height(lcdc) - 1 - row
        } else {
            row
        }
    }

    /// Its tile, or the upper one of two.
    #[tactic(auto, unfolding(crate::specs::Objects::object_tile))]
    fn first_tile(self, lcdc: u8) -> u8
        ensures { result ≡ object_tile lcdc self }
    {
        if has_bit(2, lcdc) {
            2 * (self.tile / 2)
        } else {
            self.tile
        }
    }

    /// The colours of its row on the line, from its first column on.
    #[inline(always)]
    pub(crate) fn row_colours(self, video_ram: &[u8; VIDEO_RAM], lcdc: u8, y: u8) -> u8x8
        requires y_within { y < HEIGHT }
        requires met { meets_line lcdc y self ≡ true }
        ensures { HasLanes 8 result (row_colour video_ram.now lcdc y self) }
    {
        let place = 16 * usize::from(self.first_tile(lcdc)) + 2 * usize::from(self.row(lcdc, y));
        let row = tile_row(video_ram[place], video_ram[place + 1]);
        if has_bit(5, self.attributes) {
            reversed(row)
        } else {
            row
        }
    }
}
