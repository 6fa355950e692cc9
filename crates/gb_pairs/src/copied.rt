//! Copies: what a pair's link says of another pair that becomes equal to it.

ghost use Rattle.std.specs.Prelude.{◌≡◌};
ghost use Rattle.gb_pairs.specs.Copied.{is_read, equal_to, link_copied};
ghost use Rattle.gb_pairs.specs.Sound.{IsSoundCopy};

use crate::bounds::{high_of, low_of};
use crate::written::reads;
use gb_domain::pairs::{Link, Other, WordPair};

/// Whether one of a pair's bytes is read.
fn is_read(pair: WordPair, other: Other) -> bool
    ensures { result ≡ is_read pair other }
{
    reads(high_of(pair), other) || reads(low_of(pair), other)
}

/// The link of a pair that is what another one is.
fn equal_to(pair: WordPair) -> Link
    ensures { result ≡ equal_to pair }
{
    Link {
        other: Other::Pair(pair),
        factor: 0xFFFF,
        base: None,
        sum: 0,
        width: 0,
    }
}

/// The link of a pair that becomes what another one is: the other one's, unless that reads one of the pair's bytes.
#[tactic(auto, using(crate::proofs::CopiedLaws::link_copied_sound))]
pub fn link_copied(to: WordPair, from: WordPair, link: Option<Link>) -> Link
    ensures exact { result ≡ link_copied to from link }
    ensures sound { IsSoundCopy to from link result }
{
    match link {
        Some(link) if !is_read(to, link.other) => link,
        _ => equal_to(from),
    }
}
