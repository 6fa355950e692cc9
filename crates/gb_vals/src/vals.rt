//! Intervals of bytes.

ghost use Rattle.std.specs.Prelude.{◌≡◌};
ghost use Rattle.gb_vals.specs.Vals.{between, single, any_val, is_single};

use gb_domain::types::Val;

/// The values from the least to the greatest, no copy of another.
pub fn between(lo: u8, hi: u8) -> Val
    ensures { result ≡ between lo hi }
{
    Val {
        lo,
        hi,
        low_bits: 0,
        origin: None,
    }
}

/// A known value, no copy of another.
pub fn single(value: u8) -> Val
    ensures { result ≡ single value }
{
    between(value, value)
}

/// Any value.
pub fn any() -> Val
    ensures { result ≡ any_val }
{
    between(0, 255)
}

/// Whether a value is known.
pub fn is_single(val: Val) -> bool
    ensures { result ≡ is_single val }
{
    val.lo == val.hi
}
