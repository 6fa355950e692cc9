//! Whole lines.

ghost use Rattle.std.specs.Prelude.{◌≡◌, ◌<◌, ℕ, slice_index};
ghost use Rattle.gb_ppu.specs.Seen.{seen};
ghost use Rattle.gb_ppu.specs.FrontObject.{ShowsFront};
ghost use Rattle.gb_ppu.specs.Pixel.{shade};

use crate::background::background_line;
use crate::front::front_line;
use crate::mixing::mix_line;
use crate::scene::Scene;

/// Pixels of a line.
pub const WIDTH: usize = 160;

/// Lines of the screen.
pub const HEIGHT: usize = 144;

/// Bytes beside a padded line, where tiles and objects may stand out: column x of the line is byte x + EDGE.
pub(crate) const EDGE: usize = 8;

/// Bytes of a padded line.
pub(crate) const PADDED: usize = WIDTH + 2 * EDGE;

/// Draws line y: the shades 0 to 3 of its pixels (Pan Docs: Rendering). At each the object in front is the one with the
/// smallest X, the earliest in OAM where several have it, among those of the line's first ten that are opaque there.
pub fn render_line(scene: &Scene<'_>, y: u8, line: &mut [u8; WIDTH])
    requires { y < HEIGHT }
    ensures pixels { (x : ℕ) → x < WIDTH → slice_index line.new x ≡ shade (seen scene.now) x y }
    ensures front { (x : ℕ) → x < WIDTH → ShowsFront (seen scene.now) x y (slice_index line.new x) }
{
    let colours = background_line(scene, y);
    let front = front_line(scene, y);
    mix_line(scene, &colours, &front.pixels, line);
}
