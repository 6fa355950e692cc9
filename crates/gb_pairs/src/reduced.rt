//! Reducing: values are cut to what their pairs and links leave.

ghost use Rattle.std.specs.Prelude.{◌≡◌, ◌≤◌, ◌*◌, ℕ, Bool, IfSome};
ghost use Rattle.gb_domain.specs.Pairs.{ArePairs};
ghost use Rattle.gb_pairs.specs.Reduced.{values_of, values_if, is_rising, size, pair_at, last_pair_at, pairs_at, pairs_width, cut_by_other, without_base, unbased, multiple_at, last_sum, multiples_at, others_at, values_within, cut_val, with_facts, with_bounds, with_bounds_if, cut_other, high_bounds, low_bounds, settled, reduced_by_link, reduced_pair, reduced_once, reduced, restricted};
ghost use Rattle.gb_pairs.specs.Sound.{IsSoundWithoutBase, IsSoundByLink, IsSoundReducing, IsSoundRestriction, IsCut};

use crate::bounds::{
    bounds_in, bounds_of, bounds_of_base, bounds_of_other, cut, facts_of, high_of, is_empty, low_of,
};
use crate::plain::{are_plain, put_boxes};
use crate::values::Values;
use gb_domain::interval::with_low_bits;
use gb_domain::low_bits::low_bits;
use gb_domain::pairs::{Bounds, Link, Other, PairBounds, PairFacts, Pairs, WordPair};
use gb_domain::types::Val;
use gb_ops::registers::Registers;

/// Whether a link's factor is above 0.
pub(crate) fn is_rising(link: Link) -> bool
    ensures { result ≡ is_rising link }
{
    link.factor < 128
}

/// A link's factor without its sign.
pub(crate) fn size(link: Link) -> u16
    ensures { result ≡ size link }
{
    if is_rising(link) {
        link.factor
    } else {
        link.factor.wrapping_neg()
    }
}

pub(crate) fn product(x: u16, y: u16) -> u32
    ensures { result ≡ x * y }
{
    u32::from(x) * u32::from(y)
}

/// The first of the pair's words where what its link reads is known.
#[tactic(auto, using(crate::proofs::LinkLaws::pair_by_wrapping))]
fn pair_at(link: Link, other: u16) -> u16
    ensures { result ≡ pair_at link other }
{
    link.sum.wrapping_sub(link.factor.wrapping_mul(other))
}

/// The last of them.
fn last_pair_at(link: Link, other: u16) -> u16
    ensures { result ≡ last_pair_at link other }
{
    pair_at(link, other).wrapping_add(link.width)
}

/// The pair from one end of what its link reads to the other end; they stand in order unless they go round.
pub(crate) fn pairs_at(link: Link, other: Bounds) -> Bounds
    ensures { result ≡ pairs_at link other }
{
    if is_rising(link) {
        Bounds {
            first: pair_at(link, other.last),
            last: last_pair_at(link, other.first),
        }
    } else {
        Bounds {
            first: pair_at(link, other.first),
            last: last_pair_at(link, other.last),
        }
    }
}

/// How far it is from the first of these words to the last, where they don't go round.
pub(crate) fn pairs_width(link: Link, other: Bounds) -> u32
    ensures { result ≡ pairs_width link other }
{
    product(size(link), other.last.saturating_sub(other.first)) + u32::from(link.width)
}

/// Bounds of a pair, cut to what its link leaves.
#[tactic(auto, unfolding(crate::specs::Reduced::cut_by_other))]
fn cut_by_other(link: Link, other: Bounds, bounds: Bounds) -> Bounds
    ensures { result ≡ cut_by_other link other bounds }
{
    let pairs = pairs_at(link, other);
    if pairs_width(link, other) > 65_535 || is_empty(pairs) {
        bounds
    } else {
        cut(bounds, pairs)
    }
}

/// A link as it is where its base lies within bounds: none where these are empty, or it would say nothing.
#[tactic(auto, using(crate::proofs::BaseLaws::without_base_sound), unfolding(crate::specs::Reduced::without_base))]
pub fn without_base(base: Bounds, link: Link) -> Option<Link>
    ensures exact { result ≡ without_base base link }
    ensures sound { IsSoundWithoutBase base link result }
{
    let width = u32::from(link.width) + u32::from(base.last.saturating_sub(base.first));
    if is_empty(base) || width > 65_535 {
        return None;
    }
    Some(Link {
        base: None,
        sum: link.sum.wrapping_add(base.first),
        width: width as u16,
        ..link
    })
}

/// The same, where the pairs lay in some bounds as the procedure was entered.
fn unbased(entered: &PairBounds, link: Option<Link>) -> Option<Link>
    ensures { result ≡ unbased entered.now link }
{
    let link = link?;
    without_base(bounds_of_base(link.base, entered), link)
}

/// What a link reads, times the size of its factor, where the pair is known, and this is their sum.
fn multiple_at(link: Link, sum: u16, word: u16) -> u16
    ensures { result ≡ multiple_at link sum word }
{
    if is_rising(link) {
        sum.wrapping_sub(word)
    } else {
        word.wrapping_sub(sum)
    }
}

/// The greatest of a link's sums.
pub fn last_sum(link: Link) -> u16
    ensures { result ≡ last_sum link }
{
    link.sum.wrapping_add(link.width)
}

/// What a link reads, times the size of its factor, for all words of the pair between two ends.
fn multiples_at(link: Link, bounds: Bounds) -> Bounds
    ensures { result ≡ multiples_at link bounds }
{
    if is_rising(link) {
        Bounds {
            first: multiple_at(link, link.sum, bounds.last),
            last: multiple_at(link, last_sum(link), bounds.first),
        }
    } else {
        Bounds {
            first: multiple_at(link, last_sum(link), bounds.first),
            last: multiple_at(link, link.sum, bounds.last),
        }
    }
}

/// What a link leaves of what it reads, where interval arithmetic doesn't go round.
#[tactic(auto, unfolding(crate::specs::Reduced::others_at))]
fn others_at(link: Link, other: Bounds, bounds: Bounds) -> Option<Bounds>
    ensures { result ≡ others_at link other bounds }
{
    let multiples = multiples_at(link, bounds);
    let size = size(link);
    let width = u32::from(link.width) + u32::from(bounds.last.saturating_sub(bounds.first));
    if width > 65_535 || is_empty(multiples) {
        None
    } else if size == 1 {
        Some(multiples)
    } else if size == 0 || product(size, other.last) > 65_535 {
        None
    } else {
        Some(Bounds {
            first: multiples.first.div_ceil(size),
            last: multiples.last / size,
        })
    }
}

/// The values from one bound to another, with their low bits: all where these are its bounds.
#[tactic(auto, unfolding(crate::specs::Reduced::values_within))]
fn values_within(lo: u8, hi: u8, val: Val) -> Option<Val>
    requires { lo ≤ hi }
    ensures { result ≡ values_within lo hi val }
{
    if val.low_bits == 0 {
        return Some(Val { lo, hi, ..val });
    }
    if lo == val.lo && hi == val.hi {
        return Some(val);
    }
    let left = with_low_bits(lo, hi, low_bits(val.low_bits, val.lo.into()))?;
    Some(Val {
        lo: left.lo,
        hi: left.hi,
        low_bits: left.count,
        origin: val.origin,
    })
}

/// What of a value is in some bounds.
#[tactic(auto, unfolding(crate::specs::Reduced::cut_val))]
fn cut_val(val: Val, bounds: Bounds) -> Option<Val>
    ensures { result ≡ cut_val val bounds }
{
    let lo = u16::from(val.lo).max(bounds.first);
    let hi = u16::from(val.hi).min(bounds.last);
    if hi < lo {
        return None;
    }
    values_within(lo as u8, hi as u8, val)
}

fn set_facts(pair: WordPair, facts: PairFacts, values: &mut Values)
    ensures { values.new ≡ record values.old { pairs = with_facts pair facts values.old.pairs } }
{
    match pair {
        WordPair::Bc => values.pairs.bc = facts,
        WordPair::De => values.pairs.de = facts,
        WordPair::Hl => values.pairs.hl = facts,
    }
}

fn set_bounds(pair: WordPair, bounds: Bounds, values: &mut Values)
    ensures { values.new ≡ with_bounds pair bounds values.old }
{
    let facts = facts_of(pair, &values.pairs);
    set_facts(pair, PairFacts { bounds, ..facts }, values);
}

/// What a link reads is cut: a register's value, or a pair's own bounds, if it reads one of these.
#[tactic(auto, unfolding(crate::specs::Reduced::cut_other))]
fn cut_other(other: Other, bounds: Bounds, values: &Values) -> Option<Values>
    ensures { result ≡ cut_other other bounds values.now }
{
    let mut reduced = *values;
    match other {
        Other::Register(register) => {
            let val = cut_val(values.registers.get(register), bounds)?;
            reduced.registers.set(register, val);
        }
        Other::Pair(pair) => {
            let left = cut(facts_of(pair, &values.pairs).bounds, bounds);
            if is_empty(left) {
                return None;
            }
            set_bounds(pair, left, &mut reduced);
        }
        Other::Cell(_) | Other::Nothing => {}
    }
    Some(reduced)
}

fn high_bounds(bounds: Bounds) -> Bounds
    ensures { result ≡ high_bounds bounds }
{
    Bounds {
        first: bounds.first / 256,
        last: bounds.last / 256,
    }
}

/// Bounds of a low byte: any, where the high one isn't known.
fn low_bounds(bounds: Bounds) -> Bounds
    ensures { result ≡ low_bounds bounds }
{
    if bounds.first / 256 == bounds.last / 256 {
        Bounds {
            first: bounds.first % 256,
            last: bounds.last % 256,
        }
    } else {
        Bounds {
            first: 0,
            last: 255,
        }
    }
}

/// A pair's bounds become its own, and its bytes are cut to them.
#[tactic(auto, unfolding(crate::specs::Reduced::settled))]
fn settled(pair: WordPair, bounds: Bounds, values: &Values) -> Option<Values>
    ensures { result ≡ settled pair bounds values.now }
{
    let high = cut_val(values.registers.get(high_of(pair)), high_bounds(bounds))?;
    let low = cut_val(values.registers.get(low_of(pair)), low_bounds(bounds))?;
    let mut settled = *values;
    set_bounds(pair, bounds, &mut settled);
    settled.registers.set(high_of(pair), high);
    settled.registers.set(low_of(pair), low);
    Some(settled)
}

/// A pair in some bounds and what its link reads in others, cut to what the link leaves.
#[tactic(auto, using(crate::proofs::ReducedLaws::reduced_by_link_sound), unfolding(crate::specs::Reduced::reduced_by_link))]
fn reduced_by_link(
    pair: WordPair,
    link: Link,
    other: Bounds,
    bounds: Bounds,
    values: &Values,
) -> Option<Values>
    ensures exact { result ≡ reduced_by_link pair link other bounds values.now }
    ensures sound { IsSoundByLink pair link other bounds values.now result }
{
    let left = cut_by_other(link, other, bounds);
    if is_empty(other) || is_empty(left) {
        return None;
    }
    match others_at(link, other, left) {
        None => settled(pair, left, values),
        Some(others) => settled(pair, left, &cut_other(link.other, others, values)?),
    }
}

/// Values cut by one pair, where the pairs lay in some bounds as the procedure was entered, and the bytes of memory that their links
/// read lie in others.
#[tactic(auto, using(crate::proofs::ReducedLaws::no_link_sound, crate::proofs::ReducedLaws::link_sound, crate::proofs::ReducedLaws::empty_sound), unfolding(crate::specs::Reduced::reduced_pair))]
fn cut_by_pair(
    entered: &PairBounds,
    read: &PairBounds,
    pair: WordPair,
    values: &Values,
) -> Option<Values>
    ensures exact { result ≡ reduced_pair entered.now read.now pair values.now }
    ensures sound { IsSoundReducing entered.now read.now values.now result }
{
    let bounds = bounds_of(pair, values);
    if is_empty(bounds) {
        return None;
    }
    match unbased(entered, facts_of(pair, &values.pairs).link) {
        None => settled(pair, bounds, values),
        Some(link) => reduced_by_link(
            pair,
            link,
            bounds_of_other(bounds_in(pair, read), link.other, values),
            bounds,
            values,
        ),
    }
}

/// The same, which changes neither origins nor links.
#[tactic(auto, using(crate::proofs::CutLaws::one_pair_cuts))]
fn reduced_pair(
    entered: &PairBounds,
    read: &PairBounds,
    pair: WordPair,
    values: &Values,
) -> Option<Values>
    ensures exact { result ≡ reduced_pair entered.now read.now pair values.now }
    ensures sound { IsSoundReducing entered.now read.now values.now result }
    ensures cuts { IfSome result (IsCut values.now) }
{
    cut_by_pair(entered, read, pair, values)
}

/// Values cut by each pair.
#[tactic(auto, using(crate::proofs::ReducedLaws::sound_then, crate::proofs::ReducedLaws::sound_none, crate::proofs::CutLaws::cuts_then), unfolding(crate::specs::Reduced::reduced_once))]
fn reduced_once(entered: &PairBounds, read: &PairBounds, values: &Values) -> Option<Values>
    ensures exact { result ≡ reduced_once entered.now read.now values.now }
    ensures sound { IsSoundReducing entered.now read.now values.now result }
    ensures cuts { IfSome result (IsCut values.now) }
{
    let by_bc = reduced_pair(entered, read, WordPair::Bc, values)?;
    let by_de = reduced_pair(entered, read, WordPair::De, &by_bc)?;
    reduced_pair(entered, read, WordPair::Hl, &by_de)
}

/// Each pair may cut what an earlier one reads, so that all are asked twice.
#[tactic(auto, using(crate::proofs::ReducedLaws::sound_then, crate::proofs::ReducedLaws::sound_none), unfolding(crate::specs::Reduced::reduced))]
fn reduced_twice(entered: &PairBounds, read: &PairBounds, values: &Values) -> Option<Values>
    ensures exact { result ≡ reduced entered.now read.now values.now }
    ensures sound { IsSoundReducing entered.now read.now values.now result }
{
    reduced_once(entered, read, &reduced_once(entered, read, values)?)
}

/// Cuts values in place by each pair, twice; whether they then mean something. It is out of line, so that no values are copied
/// where no pair says more than its bytes.
#[inline(never)]
fn reduce_twice(
    entered: &PairBounds,
    read: &PairBounds,
    registers: &mut Registers<Val>,
    pairs: &mut Pairs,
) -> bool
    ensures exact { reduced entered.now read.now (values_of registers.old pairs.old) ≡ values_if result (values_of registers.new pairs.new) }
    ensures sound { IsSoundReducing entered.now read.now (values_of registers.old pairs.old) (values_if result (values_of registers.new pairs.new)) }
{
    let values = Values {
        registers: *registers,
        pairs: *pairs,
    };
    match reduced_twice(entered, read, &values) {
        Some(values) => {
            *registers = values.registers;
            *pairs = values.pairs;
            true
        }
        None => false,
    }
}

/// Cuts values in place by each pair, where some pair says more than its bytes: that test is cheap and mostly fails.
#[inline(always)]
fn reduce_by_need(
    entered: &PairBounds,
    read: &PairBounds,
    registers: &mut Registers<Val>,
    pairs: &mut Pairs,
) -> bool
    ensures exact { reduced entered.now read.now (values_of registers.old pairs.old) ≡ values_if result (values_of registers.new pairs.new) }
    ensures sound { IsSoundReducing entered.now read.now (values_of registers.old pairs.old) (values_if result (values_of registers.new pairs.new)) }
{
    if are_plain(registers, pairs) {
        put_boxes(entered, read, registers, pairs);
        true
    } else {
        reduce_twice(entered, read, registers, pairs)
    }
}

/// Registers and pairs are cut in place to what pairs and links leave of each other, in a procedure that was entered with pairs
/// within bounds, where the bytes of memory that links read lie within others; whether they then stand for something.
#[inline(always)]
pub fn reduce(
    entered: &PairBounds,
    read: &PairBounds,
    registers: &mut Registers<Val>,
    pairs: &mut Pairs,
) -> bool
    ensures exact { reduced entered.now read.now (values_of registers.old pairs.old) ≡ values_if result (values_of registers.new pairs.new) }
    ensures sound { IsSoundReducing entered.now read.now (values_of registers.old pairs.old) (values_if result (values_of registers.new pairs.new)) }
    ensures cuts { IfSome (values_if result (values_of registers.new pairs.new)) (IsCut (values_of registers.old pairs.old)) }
    ensures kept { (may_be : ℕ → Bool) → ArePairs may_be pairs.old → IfSome (values_if result (values_of registers.new pairs.new)) (λ w. ArePairs may_be w.pairs) }
{
    reduce_by_need(entered, read, registers, pairs)
}

#[tactic(auto, unfolding(crate::specs::Reduced::restricted))]
fn within_bounds(pair: WordPair, within: Bounds, values: &Values) -> Option<Values>
    ensures { result ≡ restricted pair within values.now }
{
    let left = cut(bounds_of(pair, values), within);
    if is_empty(left) {
        return None;
    }
    let mut restricted = *values;
    set_bounds(pair, left, &mut restricted);
    Some(restricted)
}

/// Values whose pair lies within bounds too: what is left of its bounds becomes its own. None where nothing is.
#[tactic(auto, using(crate::proofs::ReducedLaws::restricted_sound, crate::proofs::CutLaws::restricted_cuts, crate::proofs::KeptLaws::restricted_kept))]
pub fn restricted(pair: WordPair, within: Bounds, values: &Values) -> Option<Values>
    ensures exact { result ≡ restricted pair within values.now }
    ensures sound { IsSoundRestriction pair within values.now result }
    ensures cuts { IfSome result (IsCut values.now) }
    ensures kept { (may_be : ℕ → Bool) → ArePairs may_be values.now.pairs → IfSome result (λ w. ArePairs may_be w.pairs) }
{
    within_bounds(pair, within, values)
}
