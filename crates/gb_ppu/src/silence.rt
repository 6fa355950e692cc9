//! How long the picture requests nothing and draws no line.

ghost use Rattle.std.specs.Prelude.{◌≡◌, true, false};
ghost use Rattle.gb_ppu.specs.Control.{is_on};
ghost use Rattle.gb_ppu.specs.QuietCycles.{IsSilentFor, HasNoModeSource, IsUnheeded};
ghost use Rattle.gb_ppu.specs.WellFormed.{IsWellFormed};

use crate::control::has_bit;
use crate::course::quiet_at;
use crate::picture::{DRAWN_LINES, LINE_CYCLES, LINES, Picture};

/// Whether no mode's source is chosen in STAT.
fn has_no_mode_source(stat: u8) -> bool
    ensures { result ≡ true → HasNoModeSource stat }
{
    !has_bit(3, stat) && !has_bit(4, stat) && !has_bit(5, stat)
}

/// Whether something may be requested as a line begins, where no mode's source is chosen; line 0 counts as one.
fn is_heeded(picture: &Picture, line: u16) -> bool
    ensures { result ≡ false → IsUnheeded picture.now.stat picture.now.lyc line }
{
    line == DRAWN_LINES
        || line == LINES
        || has_bit(6, picture.stat) && line == u16::from(picture.lyc)
}

/// M-cycles to the next drawing, or to a line's start that may request something, where no mode's source is chosen.
#[tactic(auto, using(crate::proofs::Silent::lines))]
fn silent_lines(picture: &Picture) -> u16
    requires formed { IsWellFormed picture.now }
    requires on { is_on picture.now.lcdc ≡ true }
    requires sources { HasNoModeSource picture.now.stat }
    ensures { IsSilentFor result picture.now }
{
    let line = picture.position / LINE_CYCLES;
    let column = picture.position % LINE_CYCLES;
    if line < DRAWN_LINES && column < 20 {
        19 - column
    } else if is_heeded(picture, line + 1) {
        LINE_CYCLES - 1 - column
    } else {
        LINE_CYCLES + 19 - column
    }
}

/// M-cycles in which a picture that is on requests nothing and draws no line; more may be such.
#[tactic(auto, using(crate::proofs::Silent::quiet_is_silent))]
pub(crate) fn silent_from(picture: &Picture) -> u16
    requires formed { IsWellFormed picture.now }
    requires on { is_on picture.now.lcdc ≡ true }
    ensures { IsSilentFor result picture.now }
{
    if has_no_mode_source(picture.stat) {
        silent_lines(picture)
    } else {
        quiet_at(picture.position)
    }
}
