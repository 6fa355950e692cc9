//! What values say of low bits.

ghost use Rattle.std.specs.Prelude.{◌≡◌};
ghost use Rattle.gb_domain.specs.Interval.{low_bits_of};
ghost use Rattle.gb_domain.specs.LowBits.{low_bits};
ghost use Rattle.gb_domain.specs.Meaning.{IsStrided};
ghost use Rattle.gb_domain.specs.Rules.{IsVal};
ghost use Rattle.gb_domain.specs.Values.{interval_of, covers_low_bits, SaysOfLowBits};

use crate::interval::{StridedInterval, low_bits_of};
use crate::low_bits::{covers, low_bits};
use crate::types::Val;

/// The bytes of a value, its origin apart.
pub fn interval_of(val: Val) -> StridedInterval
    ensures exact { result ≡ interval_of val }
    ensures meaning { SaysOfLowBits val (low_bits result.count result.lo) }
    ensures strided { IsVal val → IsStrided result }
{
    StridedInterval {
        lo: val.lo,
        hi: val.hi,
        count: val.low_bits,
    }
}

/// Whether the first one says all that the second one says of low bits.
#[inline(always)]
pub fn covers_low_bits(val: &Val, other: &Val) -> bool
    ensures { result ≡ covers_low_bits val.now other.now }
{
    match other.low_bits {
        0 => true,
        count => {
            let known = low_bits_of(StridedInterval {
                lo: val.lo,
                hi: val.hi,
                count: val.low_bits,
            });
            covers(known, low_bits(count, other.lo.into()))
        }
    }
}
