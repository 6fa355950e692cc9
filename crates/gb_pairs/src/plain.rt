//! Pairs that say nothing beyond their bytes: what reducing leaves of them is known at once.

ghost use Rattle.std.specs.Prelude.{◌≡◌, true, Some};
ghost use Rattle.gb_pairs.specs.Plain.{are_unlinked, is_plain, are_plain, with_boxes, EndInBytes};
ghost use Rattle.gb_pairs.specs.Reduced.{values_of, reduced};
ghost use Rattle.gb_pairs.specs.Sound.{IsSoundReducing};

use crate::bounds::box_of;
use gb_domain::pairs::{Bounds, PairBounds, Pairs};
use gb_domain::types::Val;
use gb_ops::registers::Registers;

fn are_unlinked(pairs: &Pairs) -> bool
    ensures { result ≡ are_unlinked pairs.now }
{
    pairs.bc.link.is_none() && pairs.de.link.is_none() && pairs.hl.link.is_none()
}

/// Whether a pair's own bounds hold all that its bytes give, which aren't empty.
fn is_plain(high: Val, low: Val, own: Bounds) -> bool
    ensures { result ≡ is_plain high low own }
{
    let bytes = box_of(high, low);
    high.lo <= high.hi && low.lo <= low.hi && own.first <= bytes.first && bytes.last <= own.last
}

/// Whether no pair is linked, or says more than its bytes.
#[tactic(auto, unfolding(crate::specs::Plain::are_plain))]
pub(crate) fn are_plain(registers: &Registers<Val>, pairs: &Pairs) -> bool
    ensures { result ≡ are_plain (values_of registers.now pairs.now) }
{
    are_unlinked(pairs)
        && is_plain(registers.b, registers.c, pairs.bc.bounds)
        && is_plain(registers.d, registers.e, pairs.de.bounds)
        && is_plain(registers.h, registers.l, pairs.hl.bounds)
}

/// The values of registers end in bytes.
fn end_in_bytes(registers: Registers<Val>)
    ensures { EndInBytes registers }
{}

/// Each pair's own bounds become those that its bytes give.
#[tactic(auto, using(crate::proofs::PlainLaws::with_boxes_sound, crate::proofs::PlainLaws::with_boxes_plain), unfolding(crate::specs::Plain::with_boxes))]
pub(crate) fn put_boxes(
    entered: &PairBounds,
    read: &PairBounds,
    registers: &Registers<Val>,
    pairs: &mut Pairs,
)
    ensures exact { values_of registers.now pairs.new ≡ with_boxes (values_of registers.now pairs.old) }
    ensures sound { IsSoundReducing entered.now read.now (values_of registers.now pairs.old) (Some (values_of registers.now pairs.new)) }
    ensures plain { are_plain (values_of registers.now pairs.old) ≡ true → reduced entered.now read.now (values_of registers.now pairs.old) ≡ Some (values_of registers.now pairs.new) }
{
    end_in_bytes(*registers);
    pairs.bc.bounds = box_of(registers.b, registers.c);
    pairs.de.bounds = box_of(registers.d, registers.e);
    pairs.hl.bounds = box_of(registers.h, registers.l);
}
