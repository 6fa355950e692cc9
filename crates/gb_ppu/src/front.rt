//! The objects in front along a line.

ghost use Rattle.std.specs.Prelude.{◌≡◌, ◌<◌, ◌≤◌, ◌+◌, ◌-◌, ◌*◌, ◌%◌, ℕ, true, false, Option, slice_index, replicate};
ghost use Rattle.gb_ppu.specs.Lanes.{HasLanes};
ghost use Rattle.gb_ppu.specs.Seen.{seen};
ghost use Rattle.gb_ppu.specs.Objects.{object_at, meets_line, line_objects};
ghost use Rattle.gb_ppu.specs.Pixel.{ObjectPixel, object_pixel, joined, front_pixel};
ghost use Rattle.gb_ppu.specs.FrontLine.{laid, own_x, nearer_x, nearer_pixel, IsPixelOrNone};

use crate::control::{has_objects, object_height};
use crate::lanes::{any_below, eight_at, put_eight, sixteen_at};
use crate::line::{EDGE, HEIGHT, PADDED, WIDTH};
use crate::objects::{LINE_OBJECTS, OBJECTS, Object};
use crate::scene::{OAM, Scene};
use std::simd::prelude::*;

/// The bits of an object's attributes that its pixels keep: behind the background, and which palette.
const STYLE: u8 = 0x90;

/// The first X at which an object lies beyond the line.
const BEYOND: u8 = 168;

/// Objects that are looked at together.
const GROUP: usize = 4;

/// Bits that make the bytes of four objects large but for the first of each, its Y.
const BUT_ROWS: [u8; 16] = [
    0, 255, 255, 255, 0, 255, 255, 255, 0, 255, 255, 255, 0, 255, 255, 255,
];

/// For each byte of a padded line, the object in front there.
#[derive(Drop)]
pub(crate) struct FrontLine {
    /// The object's X, 255 where there is none.
    xs: [u8; PADDED],
    /// Its colour there, with bits 7 and 4 of its attributes; colour 0 where there is none.
    pub pixels: [u8; PADDED],
}

/// An object's X where it's opaque, 255 where it isn't.
#[inline(always)]
fn own_xs(x: u8, colours: u8x8) -> u8x8
    ensures { HasLanes 8 result (λ i. own_x x (slice_index colours i)) }
{
    colours
        .simd_eq(u8x8::splat(0))
        .select(u8x8::splat(255), u8x8::splat(x))
}

/// The X of each object in front, after one more object with these colours.
#[inline(always)]
fn nearer_xs(x: u8, colours: u8x8, xs: u8x8) -> u8x8
    ensures { HasLanes 8 result (λ i. nearer_x x (slice_index colours i) (slice_index xs i)) }
{
    own_xs(x, colours).simd_min(xs)
}

/// Their pixels, after the same object.
#[inline(always)]
fn nearer_pixels(x: u8, colours: u8x8, attributes: u8, xs: u8x8, pixels: u8x8) -> u8x8
    ensures { HasLanes 8 result (λ i. nearer_pixel x (slice_index colours i) attributes (slice_index xs i) (slice_index pixels i)) }
{
    let own = own_xs(x, colours);
    let styled = colours | u8x8::splat(attributes & STYLE);
    own.simd_lt(xs).select(styled, pixels)
}

impl FrontLine {
    /// A line without objects.
    #[inline(always)]
    fn new() -> FrontLine
        ensures xs { result.xs ≡ replicate PADDED 255 }
        ensures pixels { result.pixels ≡ replicate PADDED 0 }
    {
        FrontLine {
            xs: [255; PADDED],
            pixels: [0; PADDED],
        }
    }

    /// Puts an object with these colours on the line.
    #[inline(always)]
    fn put(&mut self, x: u8, colours: u8x8, attributes: u8)
        requires { x < BEYOND }
        ensures xs { (i : ℕ) → i < PADDED → slice_index self.new.xs i ≡ nearer_x x (laid x colours i) (slice_index self.old.xs i) }
        ensures pixels { (i : ℕ) → i < PADDED → slice_index self.new.pixels i ≡ nearer_pixel x (laid x colours i) attributes (slice_index self.old.xs i) (slice_index self.old.pixels i) }
    {
        let at = usize::from(x);
        let xs = eight_at(&self.xs, at);
        let pixels = eight_at(&self.pixels, at);
        let styled = nearer_pixels(x, colours, attributes, xs, pixels);
        put_eight(&mut self.xs, at, nearer_xs(x, colours, xs));
        put_eight(&mut self.pixels, at, styled);
    }

    /// Draws an object that meets the line.
    #[inline(always)]
    fn draw(&mut self, scene: &Scene<'_>, y: u8, object: Object)
        requires y_within { y < HEIGHT }
        requires met { meets_line scene.now.lcdc y object ≡ true }
        ensures { (x : ℕ) → x < WIDTH → (front : Option ObjectPixel)
            → IsPixelOrNone (seen scene.now) (slice_index self.old.xs (x + EDGE)) (slice_index self.old.pixels (x + EDGE)) front
            → IsPixelOrNone (seen scene.now) (slice_index self.new.xs (x + EDGE)) (slice_index self.new.pixels (x + EDGE)) (joined front (object_pixel (seen scene.now) x y object)) }
    {
        if object.x < BEYOND {
            let colours = object.row_colours(scene.video_ram, scene.lcdc, y);
            self.put(object.x, colours, object.attributes);
        }
    }
}

/// Whether one of four objects has a row on the line.
#[inline(always)]
fn any_meets(oam: &[u8; OAM], group: usize, lcdc: u8, y: u8) -> bool
    requires group { group < 10 }
    requires y_within { y < HEIGHT }
    ensures { result ≡ false → (k : ℕ) → k < 4 → meets_line lcdc y (object_at oam.now (4 * group + k)) ≡ false }
{
    let rows = u8x16::splat(y + 16) - sixteen_at(oam, 4 * GROUP * group);
    any_below(rows | u8x16::from_array(BUT_ROWS), object_height(lcdc))
}

/// The objects in front along a line, where objects are drawn.
#[inline(always)]
pub(crate) fn front_line(scene: &Scene<'_>, y: u8) -> FrontLine
    requires { y < HEIGHT }
    ensures { (x : ℕ) → x < WIDTH → IsPixelOrNone (seen scene.now) (slice_index result.xs (x + EDGE)) (slice_index result.pixels (x + EDGE)) (front_pixel (seen scene.now) x y (line_objects scene.now.lcdc scene.now.oam.now y)) }
{
    let mut met = 0usize;
    let mut front = FrontLine::new();
    if !has_objects(scene.lcdc) {
        return front;
    }
    for group in 0..OBJECTS / GROUP {
        if any_meets(scene.oam, group, scene.lcdc, y) {
            for i in GROUP * group..GROUP * (group + 1) {
                let object = Object::at(scene.oam, i);
                if met < LINE_OBJECTS && object.meets_line(scene.lcdc, y) {
                    met += 1;
                    front.draw(scene, y, object);
                }
            }
        }
    }
    front
}
