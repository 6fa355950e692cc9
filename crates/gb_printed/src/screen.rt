//! The lines of a screen.

ghost use Rattle.std.specs.Prelude.{◌≡◌, false, is_err, OnOk, OnErr, slice_index};
ghost use Rattle.gb_text.specs.Sink.{Gains};
ghost use Rattle.gb_text.specs.Text.{GainsBeginning};
ghost use Rattle.gb_printed.specs.Screen.{byte_of, packed, line_text, screen_text};

use gb_text::line::Line;
use gb_text::put::put_all;
use gb_text::sink::{OutFault, Sink};
use gb_watch::{HEIGHT, WIDTH};

/// Four shades in a byte, the leftmost in the high bits.
fn byte_of(four: &[u8; 4]) -> u8
    ensures { result ≡ byte_of (slice_index four.now 0) (slice_index four.now 1) (slice_index four.now 2) (slice_index four.now 3) }
{
    (four[0] % 4) * 64 + (four[1] % 4) * 16 + (four[2] % 4) * 4 + four[3] % 4
}

/// The bytes of a line of shades.
fn packed(shades: &[u8; WIDTH]) -> [u8; WIDTH / 4]
    ensures { result ≡ packed shades.now }
{
    let (fours, _) = shades.as_chunks::<4>();
    let mut bytes = [0; WIDTH / 4];
    for (i, four) in fours.iter().enumerate() {
        bytes[i] = byte_of(four);
    }
    bytes
}

/// A line of the screen.
#[tactic(auto, unfolding(crate::specs::Screen::line_text))]
fn line_of(shades: &[u8; WIDTH]) -> Line
    ensures { result ≡ line_text shades.now }
{
    let mut digits = [0; WIDTH / 2];
    if hex::encode_to_slice(&packed(shades), &mut digits).is_err() {
        unreachable!();
    }
    let mut line = Line::new();
    line.push_text(&digits);
    line.end();
    line
}

/// Writes the lines of a screen, from the top on: 80 lower case hexadecimal digits and a line feed each, four pixels a
/// byte, the leftmost in the high bits.
///
/// # Errors
///
/// OutFault where the sink fails before it took them all; it then has a beginning of them.
#[tactic(auto, using(crate::proofs::Lines::line_written, crate::proofs::Lines::line_cut))]
pub(crate) fn put_screen<W: Sink>(
    screen: &[[u8; WIDTH]; HEIGHT],
    out: &mut W,
) -> Result<(), OutFault>
    requires { W.has_failed out.old ≡ false }
    ensures whole { OnOk result (Gains (W.contents out.old) (screen_text screen.now) (W.contents out.new)) }
    ensures beginning { OnErr result (GainsBeginning (W.contents out.old) (screen_text screen.now) (W.contents out.new)) }
    ensures failed { W.has_failed out.new ≡ is_err result }
{
    for shades in screen {
        put_all(out, line_of(shades).as_slice())?;
    }
    Ok(())
}
