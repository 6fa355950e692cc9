//! Lines without lanes: background and window column by column along rows of tiles, and each pixel asks each of the line's
//! objects.

ghost use Rattle.std.specs.Prelude.{◌<◌, ◌≤◌, ◌+◌};

use gb_ppu::control::{bit, has_background, has_bit, has_objects, has_window, object_height};
use gb_ppu::line::WIDTH;
use gb_ppu::scene::{OAM, Scene, VIDEO_RAM};

/// Objects that one line shows.
const LINE_OBJECTS: usize = 10;

/// Objects that OAM has.
const OBJECTS: usize = 40;

/// A row of a tile: its two bit planes.
#[derive(Clone, Copy)]
struct PlainTileRow {
    low: u8,
    high: u8,
}

/// A row of a map, as far as a line shows it.
#[derive(Clone, Copy)]
struct MapRow {
    is_second: bool,
    v: u8,
}

/// An object's four bytes.
#[derive(Clone, Copy)]
struct PlainObject {
    y: u8,
    x: u8,
    tile: u8,
    attributes: u8,
}

/// An object that no line shows.
const NOWHERE: PlainObject = PlainObject {
    y: 0,
    x: 0,
    tile: 0,
    attributes: 0,
};

/// The line's objects in OAM's order, and behind them some that no line shows.
type LineObjects = [PlainObject; LINE_OBJECTS];

/// A pixel of an object, where it's opaque.
#[derive(Clone, Copy)]
struct ObjectPixel {
    x: u8,
    shade: u8,
    is_behind: bool,
}

/// The shade that a palette gives a colour.
fn shade_of(palette: u8, colour: u8) -> u8 {
    (palette >> (2 * (colour % 4))) % 4
}

impl PlainTileRow {
    /// The row at a place of video RAM.
    fn at(video_ram: &[u8; VIDEO_RAM], place: usize) -> PlainTileRow
        requires { place ≤ 0x1FFE }
    {
        PlainTileRow {
            low: video_ram[place],
            high: video_ram[place + 1],
        }
    }

    /// The colour in a column.
    fn colour(self, column: u8) -> u8
        requires { column < 8 }
        ensures { result < 4 }
    {
        bit(7 - column, self.low) + 2 * bit(7 - column, self.high)
    }
}

impl MapRow {
    /// The row of a tile that stands at a column of the map.
    fn tile_row(self, scene: &Scene<'_>, u: u8) -> PlainTileRow {
        let map = if self.is_second { 0x1C00 } else { 0x1800 };
        let index = scene.video_ram[map + 32 * usize::from(self.v / 8) + usize::from(u / 8)];
        let place = 16 * usize::from(index) + 2 * usize::from(self.v % 8);
        if has_bit(4, scene.lcdc) || index >= 128 {
            PlainTileRow::at(scene.video_ram, place)
        } else {
            PlainTileRow::at(scene.video_ram, 0x1000 + place)
        }
    }

    /// Draws its colours from a column of the line on: there stands column u of the map.
    fn draw(self, scene: &Scene<'_>, u: u8, from: u8, colours: &mut [u8; WIDTH]) {
        let mut column = u;
        let mut row = self.tile_row(scene, column);
        for x in from..WIDTH as u8 {
            colours[usize::from(x)] = row.colour(column % 8);
            column = column.wrapping_add(1);
            if column % 8 == 0 {
                row = self.tile_row(scene, column);
            }
        }
    }
}

/// Draws the window's colours, where it shows.
fn draw_window(scene: &Scene<'_>, colours: &mut [u8; WIDTH]) {
    if !has_window(scene.lcdc) || scene.wx > 166 {
        return;
    }
    if let Some(v) = scene.window_line {
        let from = scene.wx.saturating_sub(7);
        let u = from + 7 - scene.wx;
        let row = MapRow {
            is_second: has_bit(6, scene.lcdc),
            v,
        };
        row.draw(scene, u, from, colours);
    }
}

/// The colours of background and window along a line, 0 where they're off.
fn background_line(scene: &Scene<'_>, y: u8) -> [u8; WIDTH] {
    let mut colours = [0; WIDTH];
    if has_background(scene.lcdc) {
        let row = MapRow {
            is_second: has_bit(3, scene.lcdc),
            v: y.wrapping_add(scene.scy),
        };
        row.draw(scene, scene.scx, 0, &mut colours);
        draw_window(scene, &mut colours);
    }
    colours
}

impl PlainObject {
    /// Object i of OAM.
    fn at(oam: &[u8; OAM], i: usize) -> PlainObject
        requires { i < 40 }
    {
        PlainObject {
            y: oam[4 * i],
            x: oam[4 * i + 1],
            tile: oam[4 * i + 2],
            attributes: oam[4 * i + 3],
        }
    }

    /// Its row that stands on a line, if one does.
    fn row_on(self, lcdc: u8, y: u8) -> Option<u8> {
        let height = object_height(lcdc);
        let row = (u16::from(y) + 16).checked_sub(u16::from(self.y))?;
        if row >= u16::from(height) {
            return None;
        }
        let row = (row % 16) as u8;
        if has_bit(6, self.attributes) {
            height.checked_sub(1)?.checked_sub(row)
        } else {
            Some(row)
        }
    }

    /// Its column that stands at x, if one does.
    fn column_at(self, x: u8) -> Option<u8> {
        let column = (u16::from(x) + 8).checked_sub(u16::from(self.x))?;
        if column >= 8 {
            return None;
        }
        let column = (column % 8) as u8;
        if has_bit(5, self.attributes) {
            Some(7 - column)
        } else {
            Some(column)
        }
    }

    /// The row of its tile on a line, if one stands there.
    fn tile_row(self, scene: &Scene<'_>, y: u8) -> Option<PlainTileRow> {
        let row = self.row_on(scene.lcdc, y)?;
        let tile = if has_bit(2, scene.lcdc) {
            2 * (self.tile / 2)
        } else {
            self.tile
        };
        let place = 16 * usize::from(tile) + 2 * usize::from(row % 16);
        Some(PlainTileRow::at(scene.video_ram, place))
    }

    /// Its pixel at (x, y), where it has one that is opaque.
    fn pixel_at(self, scene: &Scene<'_>, x: u8, y: u8) -> Option<ObjectPixel> {
        let row = self.tile_row(scene, y)?;
        let column = self.column_at(x)?;
        let colour = row.colour(column % 8);
        if colour == 0 {
            return None;
        }
        let palette = if has_bit(4, self.attributes) {
            scene.obp1
        } else {
            scene.obp0
        };
        Some(ObjectPixel {
            x: self.x,
            shade: shade_of(palette, colour),
            is_behind: has_bit(7, self.attributes),
        })
    }
}

/// The first ten objects in OAM's order that have a row on the line.
fn line_objects(scene: &Scene<'_>, y: u8) -> LineObjects {
    let mut chosen = [NOWHERE; LINE_OBJECTS];
    let mut count = 0;
    for i in 0..OBJECTS {
        let object = PlainObject::at(scene.oam, i);
        if count < LINE_OBJECTS && object.row_on(scene.lcdc, y).is_some() {
            chosen[count] = object;
            count += 1;
        }
    }
    chosen
}

/// Of a pixel that may be missing and a later one, the one in front, given in OAM's order.
fn nearer(earlier: Option<ObjectPixel>, later: ObjectPixel) -> Option<ObjectPixel> {
    match earlier {
        Some(pixel) if pixel.x <= later.x => earlier,
        _ => Some(later),
    }
}

/// Of the opaque pixels at (x, y) the one in front, where objects are drawn.
fn front_pixel(scene: &Scene<'_>, objects: &LineObjects, x: u8, y: u8) -> Option<ObjectPixel> {
    let mut front = None;
    if has_objects(scene.lcdc) {
        for i in 0..LINE_OBJECTS {
            if let Some(pixel) = objects[i].pixel_at(scene, x, y) {
                front = nearer(front, pixel);
            }
        }
    }
    front
}

/// The shade of an object's pixel over a colour of the background.
fn mix(scene: &Scene<'_>, colour: u8, front: Option<ObjectPixel>) -> u8 {
    match front {
        Some(pixel) if !pixel.is_behind || colour == 0 => pixel.shade,
        _ if has_background(scene.lcdc) => shade_of(scene.bgp, colour),
        _ => 0,
    }
}

/// The shades of line y.
pub fn plain_line(scene: &Scene<'_>, y: u8) -> [u8; WIDTH] {
    let objects = line_objects(scene, y);
    let colours = background_line(scene, y);
    let mut line = [0; WIDTH];
    for x in 0..WIDTH as u8 {
        let front = front_pixel(scene, &objects, x, y);
        line[usize::from(x)] = mix(scene, colours[usize::from(x)], front);
    }
    line
}
