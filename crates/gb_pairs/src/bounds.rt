//! Intervals of words, and the bounds of pairs and of what links read.

ghost use Rattle.std.specs.Prelude.{◌≡◌};
ghost use Rattle.gb_domain.specs.Pairs.{facts_of, bounds_in};
ghost use Rattle.gb_pairs.specs.Bounds.{cut, is_empty, is_one, high_of, low_of, box, bounds_of, bounds_of_val, bounds_of_other, bounds_of_base};
ghost use Rattle.gb_pairs.specs.Sound.{IsSoundBounds, IsSoundOther};

use crate::values::Values;
use gb_domain::pairs::{Bounds, Other, PairBounds, PairFacts, Pairs, WordPair};
use gb_domain::types::Val;
use gb_ops::op::Register;
use gb_vals::word;

/// 0 alone.
const ZERO_ALONE: Bounds = Bounds { first: 0, last: 0 };

/// What is known of a pair.
pub fn facts_of(pair: WordPair, pairs: &Pairs) -> PairFacts
    ensures { result ≡ facts_of pair pairs.now }
{
    match pair {
        WordPair::Bc => pairs.bc,
        WordPair::De => pairs.de,
        WordPair::Hl => pairs.hl,
    }
}

/// What is in both.
pub fn cut(x: Bounds, y: Bounds) -> Bounds
    ensures { result ≡ cut x y }
{
    Bounds {
        first: x.first.max(y.first),
        last: x.last.min(y.last),
    }
}

pub(crate) fn is_empty(bounds: Bounds) -> bool
    ensures { result ≡ is_empty bounds }
{
    bounds.last < bounds.first
}

/// Whether bounds leave one word.
pub fn is_one(bounds: Bounds) -> bool
    ensures { result ≡ is_one bounds }
{
    bounds.first == bounds.last
}

/// The register that holds a pair's high byte.
pub fn high_of(pair: WordPair) -> Register
    ensures { result ≡ high_of pair }
{
    match pair {
        WordPair::Bc => Register::B,
        WordPair::De => Register::D,
        WordPair::Hl => Register::H,
    }
}

/// The register that holds a pair's low byte.
pub fn low_of(pair: WordPair) -> Register
    ensures { result ≡ low_of pair }
{
    match pair {
        WordPair::Bc => Register::C,
        WordPair::De => Register::E,
        WordPair::Hl => Register::L,
    }
}

/// The words whose bytes are among those of two values.
pub(crate) fn box_of(high: Val, low: Val) -> Bounds
    ensures { result ≡ box high low }
{
    Bounds {
        first: word(high.lo, low.lo),
        last: word(high.hi, low.hi),
    }
}

/// The bounds of a pair: by its bytes, and by its own bounds.
#[tactic(auto, using(crate::proofs::BoundsLaws::bounds_of_sound), unfolding(crate::specs::Bounds::bounds_of))]
pub fn bounds_of(pair: WordPair, values: &Values) -> Bounds
    ensures exact { result ≡ bounds_of pair values.now }
    ensures sound { IsSoundBounds pair values.now result }
{
    let high = values.registers.get(high_of(pair));
    let low = values.registers.get(low_of(pair));
    cut(box_of(high, low), facts_of(pair, &values.pairs).bounds)
}

fn bounds_of_val(val: Val) -> Bounds
    ensures { result ≡ bounds_of_val val }
{
    Bounds {
        first: u16::from(val.lo),
        last: u16::from(val.hi),
    }
}

/// The bounds of what a link reads besides its pair, where it reads memory within these.
#[tactic(auto, using(crate::proofs::BoundsLaws::bounds_of_other_sound), unfolding(crate::specs::Bounds::bounds_of_other))]
pub fn bounds_of_other(memory: Bounds, other: Other, values: &Values) -> Bounds
    ensures exact { result ≡ bounds_of_other memory other values.now }
    ensures sound { IsSoundOther memory other values.now result }
{
    match other {
        Other::Register(register) => bounds_of_val(values.registers.get(register)),
        Other::Pair(pair) => bounds_of(pair, values),
        Other::Cell(_) => memory,
        Other::Nothing => ZERO_ALONE,
    }
}

/// The bounds of one of the pairs.
pub fn bounds_in(pair: WordPair, bounds: &PairBounds) -> Bounds
    ensures { result ≡ bounds_in pair bounds.now }
{
    match pair {
        WordPair::Bc => bounds.bc,
        WordPair::De => bounds.de,
        WordPair::Hl => bounds.hl,
    }
}

/// The bounds of a link's base, where those of the pairs at entry are known.
pub(crate) fn bounds_of_base(base: Option<WordPair>, entered: &PairBounds) -> Bounds
    ensures { result ≡ bounds_of_base base entered.now }
{
    match base {
        None => ZERO_ALONE,
        Some(pair) => bounds_in(pair, entered),
    }
}
