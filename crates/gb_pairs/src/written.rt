//! Forgetting: what is left of the pairs where a register was written.

ghost use Rattle.std.specs.Prelude.{◌≡◌, ℕ, Bool};
ghost use Rattle.gb_domain.specs.Pairs.{ArePairs};
ghost use Rattle.gb_pairs.specs.Sound.{IsSoundWithoutBases, IsSoundForgetting};
ghost use Rattle.gb_pairs.specs.Written.{is_half, pair_number, is_same_pair, reads, link_without, facts_without, without_register, link_without_base, facts_without_base, without_bases};

use gb_domain::pairs::{Link, NOTHING_KNOWN, Other, PairFacts, Pairs, WordPair};
use gb_domain::places::is_same_register;
use gb_ops::op::Register;

/// Whether a register is one of a pair's two.
pub fn is_half(register: Register, pair: WordPair) -> bool
    ensures { result ≡ is_half register pair }
{
    matches!(
        (register, pair),
        (Register::B | Register::C, WordPair::Bc)
            | (Register::D | Register::E, WordPair::De)
            | (Register::H | Register::L, WordPair::Hl)
    )
}

/// A pair's number, by which two pairs are compared.
fn pair_number(pair: WordPair) -> u8
    ensures { result ≡ pair_number pair }
{
    match pair {
        WordPair::Bc => 0,
        WordPair::De => 1,
        WordPair::Hl => 2,
    }
}

/// Whether two pairs are one.
pub fn is_same_pair(x: WordPair, y: WordPair) -> bool
    ensures { result ≡ is_same_pair x y }
{
    pair_number(x) == pair_number(y)
}

/// Whether what a link reads is read from a register.
pub(crate) fn reads(register: Register, other: Other) -> bool
    ensures { result ≡ reads register other }
{
    match other {
        Other::Register(read) => is_same_register(register, read),
        Other::Pair(pair) => is_half(register, pair),
        Other::Cell(_) | Other::Nothing => false,
    }
}

fn link_without(register: Register, link: Option<Link>) -> Option<Link>
    ensures { result ≡ link_without register link }
{
    let link = link?;
    if reads(register, link.other) {
        None
    } else {
        Some(link)
    }
}

fn facts_without(register: Register, pair: WordPair, facts: PairFacts) -> PairFacts
    ensures { result ≡ facts_without register pair facts }
{
    if is_half(register, pair) {
        return NOTHING_KNOWN;
    }
    PairFacts {
        link: link_without(register, facts.link),
        ..facts
    }
}

/// What is left of the pairs where a register was written, whatever it holds now: nothing of its own pair, and no link that
/// reads it.
#[tactic(auto, using(crate::proofs::WrittenLaws::without_register_sound, crate::proofs::KeptLaws::without_register_kept), unfolding(crate::specs::Written::without_register))]
pub fn without_register(register: Register, pairs: &Pairs) -> Pairs
    ensures exact { result ≡ without_register register pairs.now }
    ensures sound { IsSoundForgetting register pairs.now result }
    ensures kept { (may_be : ℕ → Bool) → ArePairs may_be pairs.now → ArePairs may_be result }
{
    Pairs {
        bc: facts_without(register, WordPair::Bc, pairs.bc),
        de: facts_without(register, WordPair::De, pairs.de),
        hl: facts_without(register, WordPair::Hl, pairs.hl),
    }
}

/// A link stays where it has no base.
fn link_without_base(link: Option<Link>) -> Option<Link>
    ensures { result ≡ link_without_base link }
{
    let link = link?;
    if link.base.is_none() {
        Some(link)
    } else {
        None
    }
}

fn facts_without_base(facts: PairFacts) -> PairFacts
    ensures { result ≡ facts_without_base facts }
{
    PairFacts {
        link: link_without_base(facts.link),
        ..facts
    }
}

/// What is left of the pairs where another procedure begins: no link that has a base.
#[tactic(auto, using(crate::proofs::WrittenLaws::without_bases_sound, crate::proofs::KeptLaws::without_bases_kept), unfolding(crate::specs::Written::without_bases))]
pub fn without_bases(pairs: &Pairs) -> Pairs
    ensures exact { result ≡ without_bases pairs.now }
    ensures sound { IsSoundWithoutBases pairs.now result }
    ensures kept { (may_be : ℕ → Bool) → ArePairs may_be pairs.now → ArePairs may_be result }
{
    Pairs {
        bc: facts_without_base(pairs.bc),
        de: facts_without_base(pairs.de),
        hl: facts_without_base(pairs.hl),
    }
}
