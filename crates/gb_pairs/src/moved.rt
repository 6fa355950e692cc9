//! Steps: registers that move by a known amount move the bounds of their pairs, and the sums of links.

ghost use Rattle.std.specs.Prelude.{◌≡◌, ℕ, Bool};
ghost use Rattle.gb_domain.specs.Pairs.{ArePairs};
ghost use Rattle.gb_pairs.specs.Moved.{moved_link, by_if, bounds_up, bounds_down, reads_half, reads_pair, link_of_step, facts_of_step, stepped, incremented, decremented, by_byte, other_by_byte, link_of_byte, weight, facts_of_byte_up, facts_of_byte_down, byte_incremented, byte_decremented, goes_round, carry_of, sums, with_hl, link_of_sum, added};
ghost use Rattle.gb_pairs.specs.Sound.{IsSoundStep, IsSoundByteStep, IsSoundSum};

use crate::bounds::{bounds_of, facts_of, is_one};
use crate::copied::link_copied;
use crate::values::Values;
use crate::written::{is_half, is_same_pair, without_register};
use gb_domain::pairs::{ANY_BOUNDS, Bounds, Link, Other, PairFacts, Pairs, WordPair};
use gb_domain::places::is_same_register;
use gb_ops::op::Register;

/// What a sum of HL leaves of the pairs, and its carry, where it is known.
#[derive(Clone, Copy)]
pub struct HlSum {
    pub pairs: Pairs,
    pub carry: Option<bool>,
}

/// A link whose pair moved by one amount, and what it reads by another.
pub fn moved_link(by_pair: u16, by_other: u16, link: Link) -> Link
    ensures { result ≡ moved_link by_pair by_other link }
{
    let product = link.factor.wrapping_mul(by_other);
    Link {
        sum: link.sum.wrapping_add(by_pair).wrapping_add(product),
        ..link
    }
}

fn by_if(is_moved: bool, amount: u16) -> u16
    ensures { result ≡ by_if is_moved amount }
{
    if is_moved { amount } else { 0 }
}

#[tactic(auto, unfolding(crate::specs::Moved::bounds_up))]
fn bounds_up(amount: u16, bounds: Bounds) -> Bounds
    ensures { result ≡ bounds_up amount bounds }
{
    if u32::from(bounds.first.max(bounds.last)) + u32::from(amount) < 65_536 {
        Bounds {
            first: bounds.first + amount,
            last: bounds.last + amount,
        }
    } else {
        ANY_BOUNDS
    }
}

#[tactic(auto, unfolding(crate::specs::Moved::bounds_down))]
fn bounds_down(amount: u16, bounds: Bounds) -> Bounds
    ensures { result ≡ bounds_down amount bounds }
{
    if amount <= bounds.first.min(bounds.last) {
        Bounds {
            first: bounds.first - amount,
            last: bounds.last - amount,
        }
    } else {
        ANY_BOUNDS
    }
}

/// Whether one of a pair's two bytes alone is read.
fn reads_half(pair: WordPair, other: Other) -> bool
    ensures { result ≡ reads_half pair other }
{
    match other {
        Other::Register(register) => is_half(register, pair),
        Other::Pair(_) | Other::Cell(_) | Other::Nothing => false,
    }
}

fn reads_pair(pair: WordPair, other: Other) -> bool
    ensures { result ≡ reads_pair pair other }
{
    match other {
        Other::Pair(read) => is_same_pair(pair, read),
        Other::Register(_) | Other::Cell(_) | Other::Nothing => false,
    }
}

/// The link of a pair where one moved as a word. What a single byte of that one does isn't known, and a pair's link with itself
/// isn't followed.
fn link_of_step(moved: WordPair, amount: u16, pair: WordPair, link: Option<Link>) -> Option<Link>
    ensures { result ≡ link_of_step moved amount pair link }
{
    let link = link?;
    let is_moved = is_same_pair(moved, pair);
    let is_other_moved = reads_pair(moved, link.other);
    if reads_half(moved, link.other) || is_moved && is_other_moved {
        return None;
    }
    Some(moved_link(by_if(is_moved, amount), by_if(is_other_moved, amount), link))
}

fn facts_of_step(
    moved: WordPair,
    amount: u16,
    bounds: Bounds,
    pair: WordPair,
    facts: PairFacts,
) -> PairFacts
    ensures { result ≡ facts_of_step moved amount bounds pair facts }
{
    PairFacts {
        bounds: if is_same_pair(moved, pair) {
            bounds
        } else {
            facts.bounds
        },
        link: link_of_step(moved, amount, pair, facts.link),
    }
}

/// What is known of pairs where one moved, and is in new bounds.
#[tactic(auto, unfolding(crate::specs::Moved::stepped))]
fn stepped(moved: WordPair, amount: u16, bounds: Bounds, pairs: &Pairs) -> Pairs
    ensures { result ≡ stepped moved amount bounds pairs.now }
{
    Pairs {
        bc: facts_of_step(moved, amount, bounds, WordPair::Bc, pairs.bc),
        de: facts_of_step(moved, amount, bounds, WordPair::De, pairs.de),
        hl: facts_of_step(moved, amount, bounds, WordPair::Hl, pairs.hl),
    }
}

/// What is known of pairs where one was incremented, as INC of a pair does.
#[tactic(auto, using(crate::proofs::StepLaws::incremented_sound, crate::proofs::KeptLaws::incremented_kept), unfolding(crate::specs::Moved::incremented))]
pub fn incremented(pair: WordPair, values: &Values) -> Pairs
    ensures exact { result ≡ incremented pair values.now }
    ensures sound { IsSoundStep pair 1 values.now result }
    ensures kept { (may_be : ℕ → Bool) → ArePairs may_be values.now.pairs → ArePairs may_be result }
{
    stepped(
        pair,
        1,
        bounds_up(1, bounds_of(pair, values)),
        &values.pairs,
    )
}

/// What is known of pairs where one was decremented, as DEC of a pair does.
#[tactic(auto, using(crate::proofs::StepLaws::decremented_sound, crate::proofs::KeptLaws::decremented_kept), unfolding(crate::specs::Moved::decremented))]
pub fn decremented(pair: WordPair, values: &Values) -> Pairs
    ensures exact { result ≡ decremented pair values.now }
    ensures sound { IsSoundStep pair 65535 values.now result }
    ensures kept { (may_be : ℕ → Bool) → ArePairs may_be values.now.pairs → ArePairs may_be result }
{
    stepped(
        pair,
        65_535,
        bounds_down(1, bounds_of(pair, values)),
        &values.pairs,
    )
}

/// How far a pair moves where a register moves: by one amount with its low byte, by another with its high byte.
fn by_byte(register: Register, pair: WordPair, low: u16, high: u16) -> u16
    ensures { result ≡ by_byte register pair low high }
{
    match (register, pair) {
        (Register::B, WordPair::Bc) | (Register::D, WordPair::De) | (Register::H, WordPair::Hl) =>
            high,
        (Register::C, WordPair::Bc) | (Register::E, WordPair::De) | (Register::L, WordPair::Hl) =>
            low,
        _ => 0,
    }
}

fn other_by_byte(register: Register, other: Other, low: u16, high: u16) -> u16
    ensures { result ≡ other_by_byte register other low high }
{
    match other {
        Other::Register(read) => by_if(is_same_register(register, read), low),
        Other::Pair(pair) => by_byte(register, pair, low, high),
        Other::Cell(_) | Other::Nothing => 0,
    }
}

fn link_of_byte(
    register: Register,
    low: u16,
    high: u16,
    pair: WordPair,
    link: Option<Link>,
) -> Option<Link>
    ensures { result ≡ link_of_byte register low high pair link }
{
    let link = link?;
    let by_pair = by_byte(register, pair, low, high);
    let by_other = other_by_byte(register, link.other, low, high);
    Some(moved_link(by_pair, by_other, link))
}

/// How many words of its pair one of a register is.
fn weight(register: Register) -> u16
    ensures { result ≡ weight register }
{
    match register {
        Register::B | Register::D | Register::H => 256,
        _ => 1,
    }
}

fn facts_of_byte_up(register: Register, values: &Values, pair: WordPair) -> PairFacts
    ensures { result ≡ facts_of_byte_up register values.now pair }
{
    let facts = facts_of(pair, &values.pairs);
    let bounds = if is_half(register, pair) {
        bounds_up(weight(register), bounds_of(pair, values))
    } else {
        facts.bounds
    };
    PairFacts {
        bounds,
        link: link_of_byte(register, 1, 256, pair, facts.link),
    }
}

fn facts_of_byte_down(register: Register, values: &Values, pair: WordPair) -> PairFacts
    ensures { result ≡ facts_of_byte_down register values.now pair }
{
    let facts = facts_of(pair, &values.pairs);
    let bounds = if is_half(register, pair) {
        bounds_down(weight(register), bounds_of(pair, values))
    } else {
        facts.bounds
    };
    PairFacts {
        bounds,
        link: link_of_byte(register, 65_535, 65_280, pair, facts.link),
    }
}

/// What is known of pairs where a register was incremented. Where it may go round all is forgotten that reads it.
#[tactic(auto, using(crate::proofs::ByteLaws::byte_incremented_sound, crate::proofs::KeptLaws::byte_incremented_kept), unfolding(crate::specs::Moved::byte_incremented))]
pub fn byte_incremented(register: Register, values: &Values) -> Pairs
    ensures exact { result ≡ byte_incremented register values.now }
    ensures sound { IsSoundByteStep register 1 values.now result }
    ensures kept { (may_be : ℕ → Bool) → ArePairs may_be values.now.pairs → ArePairs may_be result }
{
    if values.registers.get(register).hi < 255 {
        Pairs {
            bc: facts_of_byte_up(register, values, WordPair::Bc),
            de: facts_of_byte_up(register, values, WordPair::De),
            hl: facts_of_byte_up(register, values, WordPair::Hl),
        }
    } else {
        without_register(register, &values.pairs)
    }
}

/// What is known of pairs where a register was decremented. Where it may go round all is forgotten that reads it.
#[tactic(auto, using(crate::proofs::ByteLaws::byte_decremented_sound, crate::proofs::KeptLaws::byte_decremented_kept), unfolding(crate::specs::Moved::byte_decremented))]
pub fn byte_decremented(register: Register, values: &Values) -> Pairs
    ensures exact { result ≡ byte_decremented register values.now }
    ensures sound { IsSoundByteStep register 255 values.now result }
    ensures kept { (may_be : ℕ → Bool) → ArePairs may_be values.now.pairs → ArePairs may_be result }
{
    if values.registers.get(register).lo > 0 {
        Pairs {
            bc: facts_of_byte_down(register, values, WordPair::Bc),
            de: facts_of_byte_down(register, values, WordPair::De),
            hl: facts_of_byte_down(register, values, WordPair::Hl),
        }
    } else {
        without_register(register, &values.pairs)
    }
}

/// Whether a sum of words goes round.
fn goes_round(x: u16, y: u16) -> bool
    ensures { result ≡ goes_round x y }
{
    u32::from(x) + u32::from(y) > 65_535
}

/// The carry of a sum of words from these bounds, where it is known.
#[tactic(auto, unfolding(crate::specs::Moved::carry_of))]
fn carry_of(x: Bounds, y: Bounds) -> Option<bool>
    ensures { result ≡ carry_of x y }
{
    match (goes_round(x.first, y.first), goes_round(x.last, y.last)) {
        (true, true) => Some(true),
        (false, false) => Some(false),
        _ => None,
    }
}

/// The sums of words, where all go round or none does.
fn sums(carry: Option<bool>, x: Bounds, y: Bounds) -> Bounds
    ensures { result ≡ sums carry x y }
{
    match carry {
        None => ANY_BOUNDS,
        Some(_) => Bounds {
            first: x.first.wrapping_add(y.first),
            last: x.last.wrapping_add(y.last),
        },
    }
}

/// HL is another word, with this link: links that read it or its bytes are forgotten.
fn with_hl(bounds: Bounds, link: Option<Link>, pairs: &Pairs) -> Pairs
    ensures { result ≡ with_hl bounds link pairs.now }
{
    let left = without_register(Register::L, pairs);
    let left = without_register(Register::H, &left);
    Pairs {
        hl: PairFacts { bounds, link },
        ..left
    }
}

/// HL's link where another pair's word is added to a known one.
fn link_of_sum(from: Option<WordPair>, values: &Values) -> Option<Link>
    ensures { result ≡ link_of_sum from values.now }
{
    let from = from?;
    let hl = bounds_of(WordPair::Hl, values);
    if is_one(hl) && !is_same_pair(WordPair::Hl, from) {
        let copied = link_copied(WordPair::Hl, from, facts_of(from, &values.pairs).link);
        Some(moved_link(hl.first, 0, copied))
    } else {
        None
    }
}

/// What is known of pairs where a word is added to HL. One that is known, and isn't HL itself, is a step. By the rules of version 4
/// it is told which pair holds the word.
#[tactic(auto, unfolding(crate::specs::Moved::added))]
pub fn added(addend: Bounds, is_hl: bool, from: Option<WordPair>, values: &Values) -> HlSum
    ensures exact { result ≡ added addend is_hl from values.now }
    ensures sound { IsSoundSum addend from values.now result }
    ensures kept { (may_be : ℕ → Bool) → ArePairs may_be values.now.pairs → ArePairs may_be result.pairs }
{
    let hl = bounds_of(WordPair::Hl, values);
    let carry = carry_of(hl, addend);
    let bounds = sums(carry, hl, addend);
    let pairs = if is_one(addend) && !is_hl {
        stepped(WordPair::Hl, addend.first, bounds, &values.pairs)
    } else {
        with_hl(bounds, link_of_sum(from, values), &values.pairs)
    };
    HlSum { pairs, carry }
}
