//! Whether a callee writes only what its caller may write.

ghost use Rattle.std.specs.Prelude.{◌≡◌};
ghost use Rattle.gb_calls.specs.Calls as Calls;

use gb_domain::low_bits::none;
use gb_domain::types::Range;
use gb_product::Span;

/// Whether a range lies in one of the others.
fn is_in_one(outer: &[Range], inner: &Range) -> bool
    ensures { result ≡ Calls.is_in_one outer.now inner.now }
{
    let span = Span {
        first: inner.first,
        last: inner.last,
        low: none(),
    };
    outer
        .iter()
        .any(|range| span.is_inside(range.first, range.last))
}

/// Whether each range of a callee lies in one of its caller's.
#[tactic(auto, unfolding(crate::specs::Calls::are_ranges_inside))]
pub fn are_ranges_inside(inner: &[Range], outer: &[Range]) -> bool
    ensures exact { result ≡ Calls.are_ranges_inside inner.now outer.now }
{
    inner.iter().all(|range| is_in_one(outer, range))
}
