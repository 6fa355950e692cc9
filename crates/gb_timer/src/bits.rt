//! Bits of a byte by their number.

ghost use Rattle.std.specs.Prelude.{◌≡◌, ◌<◌};
ghost use Rattle.gb_timer.specs.Bits.{is_set};

/// Whether a byte has a bit, 0 to 7.
pub(crate) fn is_set(byte: u8, bit: u8) -> bool
    requires { bit < 8 }
    ensures { result ≡ is_set byte bit }
{
    byte & (1 << bit) != 0
}
