//! The bits of LCDC.

ghost use Rattle.std.specs.Prelude.{◌≡◌, ◌<◌, ◌≤◌};
ghost use Rattle.gb_ppu.specs.Control.{bit, has_bit, is_on, has_window, has_objects, has_background, object_height};

/// Bit n of a byte, bit 0 being the lowest.
#[tactic(auto, unfolding(crate::specs::Control::bit))]
pub fn bit(n: u8, byte: u8) -> u8
    requires { n < 8 }
    ensures value { result ≡ bit n byte }
    ensures small { result < 2 }
{
    (byte >> n) % 2
}

/// Whether bit n of a byte is set.
#[tactic(auto, unfolding(crate::specs::Control::has_bit))]
pub fn has_bit(n: u8, byte: u8) -> bool
    requires { n < 8 }
    ensures { result ≡ has_bit n byte }
{
    bit(n, byte) == 1
}

/// Whether the LCD is on.
pub fn is_on(lcdc: u8) -> bool
    ensures { result ≡ is_on lcdc }
{
    has_bit(7, lcdc)
}

/// Whether the window is drawn, where the background is.
pub fn has_window(lcdc: u8) -> bool
    ensures { result ≡ has_window lcdc }
{
    has_bit(5, lcdc)
}

/// Whether objects are drawn.
pub fn has_objects(lcdc: u8) -> bool
    ensures { result ≡ has_objects lcdc }
{
    has_bit(1, lcdc)
}

/// Whether background and window are drawn.
pub fn has_background(lcdc: u8) -> bool
    ensures { result ≡ has_background lcdc }
{
    has_bit(0, lcdc)
}

/// The lines of an object.
#[tactic(auto, unfolding(crate::specs::Control::object_height))]
pub fn object_height(lcdc: u8) -> u8
    ensures value { result ≡ object_height lcdc }
    ensures known { result ≤ 16 }
{
    if has_bit(2, lcdc) { 16 } else { 8 }
}
