//! Covering: whether what is known of pairs holds of all that values stand for.

ghost use Rattle.std.specs.Prelude.{◌≡◌, ◌+◌, ◌-◌, ◌%◌, true};
ghost use Rattle.gb_pairs.specs.Covering.{is_some_address, is_byte, is_same_other, is_same_base, is_same_link, meets_link, holds_link_plainly, arc_by, is_arc_in, arc_of_bounds, arc_of_link, arc_of_sums, arc_of_both, are_one_byte, follows, has_sums, follows_on, arc_by_link, is_copy_of, is_as_entered, arc_by_itself, holds_link, covers_link, covers_bounds, covers_pair, covers_pairs};
ghost use Rattle.gb_pairs.specs.Sound.{ArePartOf};

use crate::bounds::{bounds_of, bounds_of_other, facts_of, high_of, is_one, low_of};
use crate::reduced::{is_rising, pairs_at, pairs_width, product, size};
use crate::values::Values;
use crate::written::is_same_pair;
use gb_domain::pairs::{Bounds, Link, Other, PairBounds, PairFacts, Pairs, WordPair};
use gb_domain::places::{OneByte, is_same_register};
use gb_domain::types::Origin;
use gb_ops::op::Register;

fn is_same_other(s: Other, t: Other) -> bool
    ensures { result ≡ is_same_other s t }
{
    match (s, t) {
        (Other::Register(s), Other::Register(t)) => is_same_register(s, t),
        (Other::Pair(s), Other::Pair(t)) => is_same_pair(s, t),
        (Other::Cell(s), Other::Cell(t)) => s == t,
        (Other::Nothing, Other::Nothing) => true,
        _ => false,
    }
}

/// Whether both have this base, or neither has one.
fn is_same_base(s: Option<WordPair>, t: Option<WordPair>) -> bool
    ensures { result ≡ is_same_base s t }
{
    match (s, t) {
        (None, None) => true,
        (Some(s), Some(t)) => is_same_pair(s, t),
        _ => false,
    }
}

fn is_same_link(s: Option<Link>, t: Link) -> bool
    ensures { result ≡ is_same_link s t }
{
    let Some(s) = s else {
        return false;
    };
    is_same_other(s.other, t.other)
        && s.factor == t.factor
        && is_same_base(s.base, t.base)
        && s.sum == t.sum
        && s.width == t.width
}

/// Whether a pair and what a link reads beside it are known, and meet the link, which has no base.
fn meets_link(pair: Bounds, other: Bounds, link: Link) -> bool
    ensures { result ≡ meets_link pair other link }
{
    let product = link.factor.wrapping_mul(other.first);
    link.base.is_none()
        && is_one(pair)
        && is_one(other)
        && pair.first.wrapping_add(product) == link.sum
}

/// By the rules of versions 1 to 3: it is the pair's link, or pair and other are known and meet it.
#[tactic(auto, unfolding(crate::specs::Covering::holds_link_plainly))]
fn holds_link_plainly(pair: WordPair, s: &Values, read: Bounds, link: Link) -> bool
    ensures { result ≡ holds_link_plainly pair s.now read link }
{
    is_same_link(facts_of(pair, &s.pairs).link, link)
        || meets_link(
            bounds_of(pair, s),
            bounds_of_other(read, link.other, s),
            link,
        )
}

// ---- words that stand one after another

/// Words that stand one after another, modulo 65,536: the first, and so many after it.
#[derive(Clone, Copy)]
pub(crate) struct Arc {
    pub(crate) first: u16,
    pub(crate) width: u16,
}

/// An arc that isn't all words; it comes of a link, whose factor is a word.
fn arc_by(link: Link, first: u16, width: u32) -> Option<Arc>
    ensures { result ≡ arc_by link first width }
{
    if width > 65_535 {
        return None;
    }
    let width = width as u16;
    Some(Arc { first, width })
}

/// How far one word lies behind another.
#[tactic(auto, using(crate::proofs::ArcLaws::distance_by_wrapping))]
fn distance(word: u16, from: u16) -> u16
    ensures { result ≡ (word + (65536 - from % 65536)) % 65536 }
{
    word.wrapping_sub(from)
}

fn is_arc_in(inner: Arc, outer: Arc) -> bool
    ensures { result ≡ is_arc_in inner outer }
{
    u32::from(distance(inner.first, outer.first)) + u32::from(inner.width) <= u32::from(outer.width)
}

fn arc_of_bounds(bounds: Bounds) -> Arc
    ensures { result ≡ arc_of_bounds bounds }
{
    Arc {
        first: bounds.first,
        width: bounds.last.saturating_sub(bounds.first),
    }
}

/// What a pair's link leaves of it, where what the link reads lies in bounds.
fn arc_of_link(link: Link, other: Bounds) -> Option<Arc>
    ensures { result ≡ arc_of_link link other }
{
    arc_by(link, pairs_at(link, other).first, pairs_width(link, other))
}

fn arc_of_sums(link: Link) -> Arc
    ensures { result ≡ arc_of_sums link }
{
    Arc {
        first: link.sum,
        width: link.width,
    }
}

/// The sums of a pair on an arc and what a link reads, which lies in bounds, times the link's factor.
fn arc_of_both(link: Link, other: Bounds, pair: Arc) -> Option<Arc>
    ensures { result ≡ arc_of_both link other pair }
{
    let end = if is_rising(link) {
        other.first
    } else {
        other.last
    };
    let first = pair.first.wrapping_add(link.factor.wrapping_mul(end));
    let spread = product(size(link), other.last.saturating_sub(other.first));
    arc_by(link, first, u32::from(pair.width) + spread)
}

// ---- a link

/// Whether it is the address.
fn is_some_address(cell: u16, address: Option<u16>) -> bool
    ensures { result ≡ is_some_address cell address }
{
    match address {
        None => false,
        Some(address) => cell == address,
    }
}

/// Whether what is read is the one byte.
fn is_byte(byte: &OneByte, other: Other) -> bool
    ensures { result ≡ is_byte byte.now other }
{
    match other {
        Other::Register(register) => byte.registers.get(register),
        Other::Cell(cell) => is_some_address(cell, byte.address),
        Other::Pair(_) | Other::Nothing => false,
    }
}

/// Whether both are places of the one byte.
fn are_one_byte(byte: &OneByte, s: Other, t: Other) -> bool
    ensures { result ≡ are_one_byte byte.now s t }
{
    is_byte(byte, s) && is_byte(byte, t)
}

/// Whether a link follows from another one of the pair.
fn follows(byte: &OneByte, s: Option<Link>, t: Link) -> bool
    ensures { result ≡ follows byte.now s t }
{
    let Some(s) = s else {
        return false;
    };
    is_same_base(s.base, t.base)
        && (is_same_other(s.other, t.other) || are_one_byte(byte, s.other, t.other))
        && s.factor == t.factor
        && is_arc_in(arc_of_sums(s), arc_of_sums(t))
}

/// Whether sums are some of a link's.
fn has_sums(link: Link, sums: Option<Arc>) -> bool
    ensures { result ≡ has_sums link sums }
{
    let Some(sums) = sums else {
        return false;
    };
    is_arc_in(sums, arc_of_sums(link))
}

/// Whether a link follows from where its pair is, less the link's base, and within which bounds what it reads is.
fn follows_on(other: Bounds, link: Link, pair: Option<Arc>) -> bool
    ensures { result ≡ follows_on other link pair }
{
    let Some(pair) = pair else {
        return false;
    };
    has_sums(link, arc_of_both(link, other, pair))
}

/// Where a pair is by its link, which reads memory within bounds, if that has the base.
fn arc_by_link(s: &Values, read: Bounds, base: Option<WordPair>, link: Option<Link>) -> Option<Arc>
    ensures { result ≡ arc_by_link s.now read base link }
{
    let link = link?;
    if is_same_base(link.base, base) {
        arc_of_link(link, bounds_of_other(read, link.other, s))
    } else {
        None
    }
}

/// Whether a value is what a register held as the procedure was entered.
fn is_copy_of(register: Register, origin: Option<Origin>) -> bool
    ensures { result ≡ is_copy_of register origin }
{
    matches!(
        (register, origin),
        (Register::A, Some(Origin::A))
            | (Register::B, Some(Origin::B))
            | (Register::C, Some(Origin::C))
            | (Register::D, Some(Origin::D))
            | (Register::E, Some(Origin::E))
            | (Register::H, Some(Origin::H))
            | (Register::L, Some(Origin::L))
    )
}

/// Whether a pair's bytes are those that one held as the procedure was entered.
pub fn is_as_entered(pair: WordPair, held: WordPair, s: &Values) -> bool
    ensures { result ≡ is_as_entered pair held s.now }
{
    is_copy_of(high_of(held), s.registers.get(high_of(pair)).origin)
        && is_copy_of(low_of(held), s.registers.get(low_of(pair)).origin)
}

/// Where a pair is by itself: in its bounds, or at 0, less what it held as the procedure was entered, where its bytes are that.
fn arc_by_itself(s: &Values, base: Option<WordPair>, pair: WordPair) -> Option<Arc>
    ensures { result ≡ arc_by_itself s.now base pair }
{
    match base {
        None => Some(arc_of_bounds(bounds_of(pair, s))),
        Some(held) if is_as_entered(pair, held, s) => Some(Arc { first: 0, width: 0 }),
        Some(_) => None,
    }
}

/// Whether a link of the pair holds that reads memory within some bounds, where the pair's own link reads it within others.
#[tactic(auto, unfolding(crate::specs::Covering::holds_link))]
fn holds_link(
    byte: &OneByte,
    pair: WordPair,
    s: &Values,
    own_read: Bounds,
    read: Bounds,
    link: Link,
) -> bool
    ensures { result ≡ holds_link byte.now pair s.now own_read read link }
{
    let known = facts_of(pair, &s.pairs).link;
    let other = bounds_of_other(read, link.other, s);
    follows(byte, known, link)
        || follows_on(other, link, arc_by_itself(s, link.base, pair))
        || follows_on(other, link, arc_by_link(s, own_read, link.base, known))
}

// ---- pairs

fn covers_link(
    by: Option<OneByte>,
    pair: WordPair,
    s: &Values,
    own_read: Bounds,
    read: Bounds,
    link: Option<Link>,
) -> bool
    ensures { result ≡ covers_link by pair s.now own_read read link }
{
    let Some(link) = link else {
        return true;
    };
    match by {
        None => holds_link_plainly(pair, s, read, link),
        Some(byte) => holds_link(&byte, pair, s, own_read, read, link),
    }
}

fn covers_bounds(s: Bounds, t: Bounds) -> bool
    ensures { result ≡ covers_bounds s t }
{
    t.first <= s.first && s.last <= t.last
}

fn covers_pair(
    by: Option<OneByte>,
    pair: WordPair,
    s: &Values,
    own_read: Bounds,
    read: Bounds,
    t: PairFacts,
) -> bool
    ensures { result ≡ covers_pair by pair s.now own_read read t }
{
    covers_bounds(bounds_of(pair, s), t.bounds) && covers_link(by, pair, s, own_read, read, t.link)
}

/// Whether what is known of pairs holds of all registers that values stand for, decided pair by pair (abstract
/// interpretation: inclusion): by the rules of version 4 where it is told which places hold one byte. The links of the values read
/// memory within some bounds, those that are asked for within others.
#[tactic(auto, using(crate::proofs::CoveringLaws::covers_pairs_sound), unfolding(crate::specs::Covering::covers_pairs))]
pub fn covers_pairs(
    by: Option<OneByte>,
    values: &Values,
    own_read: &PairBounds,
    read: &PairBounds,
    pairs: &Pairs,
) -> bool
    ensures exact { result ≡ covers_pairs by values.now own_read.now read.now pairs.now }
    ensures sound { result ≡ true → ArePartOf by values.now own_read.now read.now pairs.now }
{
    covers_pair(by, WordPair::Bc, values, own_read.bc, read.bc, pairs.bc)
        && covers_pair(by, WordPair::De, values, own_read.de, read.de, pairs.de)
        && covers_pair(by, WordPair::Hl, values, own_read.hl, read.hl, pairs.hl)
}
