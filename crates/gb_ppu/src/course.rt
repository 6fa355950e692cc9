//! The picture's course over several M-cycles: quiet ones are passed at once.

ghost use Rattle.std.specs.Prelude.{◌≡◌, ◌<◌, ◌≤◌, true, IsTrue};
ghost use Rattle.gb_ppu.specs.Control.{is_on};
ghost use Rattle.gb_ppu.specs.Picture.{advanced, requested_in, nothing};
ghost use Rattle.gb_ppu.specs.QuietCycles.{quiet_at};
ghost use Rattle.gb_ppu.specs.WellFormed.{IsWellFormed};

use crate::control::is_on;
use crate::picture::{LINE_CYCLES, Passed, Picture, Requests};

/// M-cycles from a position on that reach neither a line's start nor another mode.
#[tactic(auto, unfolding(crate::specs::QuietCycles::quiet_at))]
pub(crate) fn quiet_at(position: u16) -> u16
    ensures { result ≡ quiet_at position }
{
    match position % LINE_CYCLES {
        column @ 0..20 => 19 - column,
        column @ 20..63 => 62 - column,
        column => LINE_CYCLES - 1 - column,
    }
}

/// Whether the LCD is on and nothing but the position changes in n M-cycles.
#[inline]
pub(crate) fn is_quiet(picture: &Picture, n: u8) -> bool
    ensures { IsTrue result → (is_on picture.now.lcdc ≡ true) × (n ≤ quiet_at picture.now.position) }
{
    is_on(picture.lcdc) && u16::from(n) <= quiet_at(picture.position)
}

/// Lets n M-cycles pass in which nothing but the position changes.
#[tactic(auto, using(crate::proofs::Courses::quiet))]
fn advance_quietly(picture: Picture, n: u16) -> Picture
    requires formed { IsWellFormed picture }
    requires on { is_on picture.lcdc ≡ true }
    requires quiet { n ≤ quiet_at picture.position }
    ensures picture { result ≡ advanced n picture }
    ensures requests { requested_in n picture ≡ nothing }
{
    Picture {
        position: picture.position + n,
        ..picture
    }
}

/// Lets n M-cycles pass, by going from one change to the next.
#[tactic(auto, using(crate::proofs::Courses::course))]
pub fn advance(picture: Picture, n: u8) -> Passed
    requires { IsWellFormed picture }
    ensures picture { result.picture ≡ advanced n picture }
    ensures requests { result.requests ≡ requested_in n picture }
{
    let quiet = quiet_at(picture.position);
    if !is_on(picture.lcdc) {
        return Passed {
            picture,
            requests: Requests::NOTHING,
        };
    }
    if u16::from(n) <= quiet {
        return Passed {
            picture: advance_quietly(picture, u16::from(n)),
            requests: Requests::NOTHING,
        };
    }
    let change = advance_quietly(picture, quiet).tick();
    let rest = advance(change.picture, n - 1 - quiet as u8);
    Passed {
        picture: rest.picture,
        requests: change.requests.both(rest.requests),
    }
}
