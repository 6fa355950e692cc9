//! What is known together of a caller's states behind a call.

ghost use Rattle.std.specs.Prelude.{◌≡◌, ◌+◌, ◌≤◌};
ghost use Rattle.gb_relations.specs.Returned as Returned;
ghost use Rattle.gb_relations.specs.Returned.{IsSoundReturn};

use gb_copies::places::without_test;
use gb_domain::pairs::{Bounds, Link, Other, PairFacts, Pairs, WordPair};
use gb_domain::places::{OneByte, has_place};
use gb_domain::relations::Relations;
use gb_domain::types::Val;
use gb_ops::registers::Registers;
use gb_pairs::bounds::{bounds_of, cut, facts_of, high_of, low_of};
use gb_pairs::covering::is_as_entered;
use gb_pairs::reduced::{last_sum, without_base};
use gb_pairs::values::Values;

/// What a callee gives back as it was.
#[derive(Clone, Copy)]
pub struct Kept {
    pub registers: Registers<bool>,
    pub flags: bool,
    /// The address that is a place of the caller's byte.
    pub address: bool,
    /// The bytes of memory that links of the caller read.
    pub read: ReadKept,
}

/// Of each pair, whether the byte of memory that its link reads is given back as it was.
#[derive(Clone, Copy)]
pub struct ReadKept {
    pub bc: bool,
    pub de: bool,
    pub hl: bool,
}

fn is_pair_kept(pair: WordPair, kept: &Kept) -> bool
    ensures { result ≡ Returned.is_pair_kept pair kept.now }
{
    kept.registers.get(high_of(pair)) && kept.registers.get(low_of(pair))
}

fn is_read_kept(pair: WordPair, kept: &Kept) -> bool
    ensures { result ≡ Returned.is_read_kept pair kept.now }
{
    match pair {
        WordPair::Bc => kept.read.bc,
        WordPair::De => kept.read.de,
        WordPair::Hl => kept.read.hl,
    }
}

/// Whether what a pair's link reads is kept.
fn is_other_kept(pair: WordPair, other: Other, kept: &Kept) -> bool
    ensures { result ≡ Returned.is_other_kept pair other kept.now }
{
    match other {
        Other::Register(register) => kept.registers.get(register),
        Other::Pair(read) => is_pair_kept(read, kept),
        Other::Cell(_) => is_read_kept(pair, kept),
        Other::Nothing => true,
    }
}

fn both(one: &Registers<bool>, other: &Registers<bool>) -> Registers<bool>
    ensures { result ≡ Returned.both one.now other.now }
{
    Registers {
        a: one.a && other.a,
        b: one.b && other.b,
        c: one.c && other.c,
        d: one.d && other.d,
        e: one.e && other.e,
        h: one.h && other.h,
        l: one.l && other.l,
    }
}

/// The places of a byte that are kept; without places nothing is said of it.
#[tactic(auto, unfolding(crate::specs::Returned::kept_places))]
fn kept_places(kept: &Kept, byte: &OneByte) -> OneByte
    ensures { result ≡ Returned.kept_places kept.now byte.now }
{
    let left = OneByte {
        registers: both(&byte.registers, &kept.registers),
        address: if kept.address { byte.address } else { None },
        test: byte.test,
    };
    if has_place(&left) {
        left
    } else {
        OneByte { test: None, ..left }
    }
}

/// The caller's byte where the flags are kept; else the exit's, or if it has none the caller's without what the flags said.
#[tactic(auto, unfolding(crate::specs::Returned::byte_returned))]
fn byte_returned(kept: &Kept, caller: &OneByte, exit: &OneByte) -> OneByte
    ensures { result ≡ Returned.byte_returned kept.now caller.now exit.now }
{
    if kept.flags {
        kept_places(kept, caller)
    } else if has_place(exit) {
        *exit
    } else {
        without_test(&kept_places(kept, caller))
    }
}

fn pair_if_kept(kept: &Kept, pair: Option<WordPair>) -> Option<WordPair>
    ensures { result ≡ Returned.pair_if_kept kept.now pair }
{
    match pair {
        Some(pair) if is_pair_kept(pair, kept) => Some(pair),
        _ => None,
    }
}

#[tactic(auto, unfolding(crate::specs::Returned::zero_returned))]
fn zero_returned(kept: &Kept, caller: Option<WordPair>, exit: Option<WordPair>) -> Option<WordPair>
    ensures { result ≡ Returned.zero_returned kept.now caller exit }
{
    if kept.flags {
        pair_if_kept(kept, caller)
    } else {
        exit
    }
}

fn link_if_kept(pair: WordPair, kept: &Kept, link: Option<Link>) -> Option<Link>
    ensures { result ≡ Returned.link_if_kept pair kept.now link }
{
    match link {
        Some(link) if is_pair_kept(pair, kept) && is_other_kept(pair, link.other, kept) => {
            Some(link)
        },
        _ => None,
    }
}

// ---- the base of an exit's link, which is what the caller's pair was as it called

fn is_nothing(other: Other) -> bool
    ensures { result ≡ Returned.is_nothing other }
{
    matches!(other, Other::Nothing)
}

/// Puts what the base is, by the caller's link of its pair, into an exit's link. At most one of both reads something.
fn with_sums(link: Link, base: Link) -> Link
    requires { link.width + base.width ≤ 65535 }
    ensures { result ≡ Returned.with_sums link base }
{
    let read = if is_nothing(link.other) { base } else { link };
    Link {
        other: read.other,
        factor: read.factor,
        base: base.base,
        sum: link.sum.wrapping_add(base.sum),
        width: link.width + base.width,
    }
}

/// Whether what the caller's link of a pair reads is kept, not both read something, and not all sums are some.
fn is_fit(kept: &Kept, pair: WordPair, link: Link, base: Link) -> bool
    ensures { result ≡ Returned.is_fit kept.now pair link base }
{
    is_other_kept(pair, base.other, kept)
        && (is_nothing(link.other) || is_nothing(base.other))
        && u32::from(link.width) + u32::from(base.width) <= 65_535
}

fn told_by_link(kept: &Kept, pair: WordPair, link: Link, base: Option<Link>) -> Option<Link>
    ensures { result ≡ Returned.told_by_link kept.now pair link base }
{
    match base {
        Some(base) if is_fit(kept, pair, link, base) => Some(with_sums(link, base)),
        _ => None,
    }
}

/// Which pair's word as the caller was entered a pair's word is.
fn pair_entered(pair: WordPair, caller: &Values) -> Option<WordPair>
    ensures { result ≡ Returned.pair_entered pair caller.now }
{
    if is_as_entered(pair, WordPair::Bc, caller) {
        Some(WordPair::Bc)
    } else if is_as_entered(pair, WordPair::De, caller) {
        Some(WordPair::De)
    } else if is_as_entered(pair, WordPair::Hl, caller) {
        Some(WordPair::Hl)
    } else {
        None
    }
}

/// The base is a word that the caller's pair had as the caller was entered.
fn told_by_entry(link: Link, entered: Option<WordPair>) -> Option<Link>
    ensures { result ≡ Returned.told_by_entry link entered }
{
    let base = Some(entered?);
    Some(Link { base, ..link })
}

/// The base lies within the bounds of the caller's pair.
fn told_by_bounds(link: Link, base: Bounds) -> Option<Link>
    ensures { result ≡ Returned.told_by_bounds link base }
{
    if is_nothing(link.other) {
        None
    } else {
        without_base(base, link)
    }
}

/// A link of the exit, with what the caller says of its base.
fn told_link(kept: &Kept, caller: &Values, link: Link) -> Option<Link>
    ensures { result ≡ Returned.told_link kept.now caller.now link link.base }
{
    let Some(base) = link.base else {
        return Some(link);
    };
    if let Some(told) = told_by_link(kept, base, link, facts_of(base, &caller.pairs).link) {
        return Some(told);
    }
    if let Some(told) = told_by_entry(link, pair_entered(base, caller)) {
        return Some(told);
    }
    told_by_bounds(link, bounds_of(base, caller))
}

/// The exit's link, or if it has none the caller's where all that it reads is kept.
fn link_returned(pair: WordPair, kept: &Kept, caller: &Values, exit: Option<Link>) -> Option<Link>
    ensures { result ≡ Returned.link_returned pair kept.now caller.now exit }
{
    match exit {
        Some(link) => told_link(kept, caller, link),
        None => link_if_kept(pair, kept, facts_of(pair, &caller.pairs).link),
    }
}

/// A pair's bounds, where its link reads nothing and has no base: its sums, where they stand in order.
fn cut_to_sums(link: Option<Link>, bounds: Bounds) -> Bounds
    ensures { result ≡ Returned.cut_to_sums link bounds }
{
    match link {
        Some(link) if is_nothing(link.other) && link.sum <= last_sum(link) => {
            let sums = Bounds {
                first: link.sum,
                last: last_sum(link),
            };
            cut(bounds, sums)
        }
        _ => bounds,
    }
}

/// Bounds, cut by a link of the exit whose base lies within those of the caller's pair.
fn cut_by_base(caller: &Values, link: Link, bounds: Bounds) -> Bounds
    ensures { result ≡ Returned.cut_by_base caller.now link link.base bounds }
{
    match link.base {
        None => bounds,
        Some(base) => cut_to_sums(without_base(bounds_of(base, caller), link), bounds),
    }
}

fn cut_by_exit(caller: &Values, exit: Option<Link>, bounds: Bounds) -> Bounds
    ensures { result ≡ Returned.cut_by_exit caller.now exit bounds }
{
    match exit {
        None => bounds,
        Some(link) => cut_by_base(caller, link, bounds),
    }
}

/// The caller's bounds where both bytes are kept, else the exit's, cut to what the exit's link says.
#[tactic(auto, unfolding(crate::specs::Returned::facts_returned))]
fn facts_returned(pair: WordPair, kept: &Kept, caller: &Values, exit: &PairFacts) -> PairFacts
    ensures { result ≡ Returned.facts_returned pair kept.now caller.now exit.now }
{
    let bounds = if is_pair_kept(pair, kept) {
        facts_of(pair, &caller.pairs).bounds
    } else {
        exit.bounds
    };
    PairFacts {
        bounds: cut_by_exit(caller, exit.link, bounds),
        link: link_returned(pair, kept, caller, exit.link),
    }
}

#[tactic(auto, unfolding(crate::specs::Returned::returned))]
fn joined(
    kept: &Kept,
    registers: &Registers<Val>,
    caller: &Relations,
    exit: &Relations,
) -> Relations
    ensures { result ≡ Returned.returned kept.now registers.now caller.now exit.now }
{
    let values = Values {
        registers: *registers,
        pairs: caller.pairs,
    };
    let behind = &exit.pairs;
    Relations {
        byte: byte_returned(kept, &caller.byte, &exit.byte),
        zero: zero_returned(kept, caller.zero, exit.zero),
        pairs: Pairs {
            bc: facts_returned(WordPair::Bc, kept, &values, &behind.bc),
            de: facts_returned(WordPair::De, kept, &values, &behind.de),
            hl: facts_returned(WordPair::Hl, kept, &values, &behind.hl),
        },
    }
}

/// What is known together behind a call, of what was known as the caller called with these registers, and of what the callee's exit
/// says.
#[tactic(auto, using(crate::proofs::ReturnLaws::returned_sound))]
pub fn returned(
    kept: &Kept,
    registers: &Registers<Val>,
    caller: &Relations,
    exit: &Relations,
) -> Relations
    ensures exact { result ≡ Returned.returned kept.now registers.now caller.now exit.now }
    ensures sound { IsSoundReturn kept.now registers.now caller.now exit.now result }
{
    joined(kept, registers, caller, exit)
}
