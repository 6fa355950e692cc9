//! What a store leaves of links that read a byte of memory, and what INC and DEC of that byte make of them.

ghost use Rattle.std.specs.Prelude.{◌≡◌};
ghost use Rattle.gb_relations.specs.CellLinks.{is_read_at, link_apart, facts_apart, pairs_apart, is_read_from, link_of_cell, facts_of_cell, cell_stepped, stepped_or_apart, cells_after};

use crate::bytes::{at_high, at_hl, at_indirect, high, one};
use crate::pointed_bits::may_be_at;
use gb_domain::LowBits;
use gb_domain::pairs::{Bounds, Link, Other, PairFacts, Pairs};
use gb_domain::types::Val;
use gb_ops::op::{Op, Operand};
use gb_pairs::bounds::is_one;
use gb_pairs::moved::moved_link;
use gb_pairs::values::Values;

// ---- stores

/// Whether what is read stands at one of the addresses that have these low bits.
fn is_read_at(bits: Option<LowBits>, addresses: Bounds, other: Other) -> bool
    ensures { result ≡ is_read_at bits addresses other }
{
    match other {
        Other::Cell(cell) => {
            may_be_at(bits, cell) && addresses.first <= cell && cell <= addresses.last
        }
        Other::Register(_) | Other::Pair(_) | Other::Nothing => false,
    }
}

fn link_apart(bits: Option<LowBits>, addresses: Bounds, link: Option<Link>) -> Option<Link>
    ensures { result ≡ link_apart bits addresses link }
{
    let link = link?;
    if is_read_at(bits, addresses, link.other) {
        None
    } else {
        Some(link)
    }
}

fn facts_apart(bits: Option<LowBits>, addresses: Bounds, facts: PairFacts) -> PairFacts
    ensures { result ≡ facts_apart bits addresses facts }
{
    PairFacts {
        link: link_apart(bits, addresses, facts.link),
        ..facts
    }
}

/// One of the addresses was written: links that may read it are forgotten.
#[tactic(auto, unfolding(crate::specs::CellLinks::pairs_apart))]
fn pairs_apart(bits: Option<LowBits>, addresses: Bounds, pairs: Pairs) -> Pairs
    ensures { result ≡ pairs_apart bits addresses pairs }
{
    Pairs {
        bc: facts_apart(bits, addresses, pairs.bc),
        de: facts_apart(bits, addresses, pairs.de),
        hl: facts_apart(bits, addresses, pairs.hl),
    }
}

// ---- a byte's step

fn is_read_from(address: u16, other: Other) -> bool
    ensures { result ≡ is_read_from address other }
{
    match other {
        Other::Cell(cell) => address == cell,
        Other::Register(_) | Other::Pair(_) | Other::Nothing => false,
    }
}

fn link_of_cell(address: u16, amount: u16, link: Option<Link>) -> Option<Link>
    ensures { result ≡ link_of_cell address amount link }
{
    let link = link?;
    let moved = if is_read_from(address, link.other) {
        amount
    } else {
        0
    };
    Some(moved_link(0, moved, link))
}

fn facts_of_cell(address: u16, amount: u16, facts: PairFacts) -> PairFacts
    ensures { result ≡ facts_of_cell address amount facts }
{
    PairFacts {
        link: link_of_cell(address, amount, facts.link),
        ..facts
    }
}

/// The byte at an address moved by an amount, modulo 65,536: the sums of the links that read it move.
#[tactic(auto, unfolding(crate::specs::CellLinks::cell_stepped))]
fn cell_stepped(address: u16, amount: u16, pairs: Pairs) -> Pairs
    ensures { result ≡ cell_stepped address amount pairs }
{
    Pairs {
        bc: facts_of_cell(address, amount, pairs.bc),
        de: facts_of_cell(address, amount, pairs.de),
        hl: facts_of_cell(address, amount, pairs.hl),
    }
}

/// So where the address is known and the byte doesn't go round.
fn stepped_or_apart(
    is_step: bool,
    amount: u16,
    bits: Option<LowBits>,
    addresses: Bounds,
    pairs: Pairs,
) -> Pairs
    ensures { result ≡ stepped_or_apart is_step amount bits addresses pairs }
{
    if is_step && is_one(addresses) {
        cell_stepped(addresses.first, amount, pairs)
    } else {
        pairs_apart(bits, addresses, pairs)
    }
}

// ---- instructions

/// The pairs after a taken instruction, whose registers are written. The values are those before it, `low` is what it read at an
/// address, and `bits` is what is known of the low bits of an address that it stores at by a pointer.
#[tactic(auto, unfolding(crate::specs::CellLinks::cells_after))]
pub(crate) fn cells_after(
    bits: Option<LowBits>,
    op: Op,
    values: &Values,
    low: Val,
    pairs: Pairs,
) -> Pairs
    ensures { result ≡ cells_after bits op values.now low pairs }
{
    match op {
        Op::StoreA(to) => pairs_apart(bits, at_indirect(to, values), pairs),
        Op::Increment(Operand::AtHl) => {
            stepped_or_apart(low.hi < 255, 1, bits, at_hl(values), pairs)
        }
        Op::Decrement(Operand::AtHl) => {
            stepped_or_apart(low.lo > 0, 65_535, bits, at_hl(values), pairs)
        }
        Op::LoadImmediate(Operand::AtHl, _)
        | Op::Load(Operand::AtHl, _)
        | Op::Shift(_, Operand::AtHl)
        | Op::Reset(_, Operand::AtHl)
        | Op::Set(_, Operand::AtHl) => pairs_apart(bits, at_hl(values), pairs),
        Op::StoreSp(address) => {
            let left = pairs_apart(None, one(address), pairs);
            pairs_apart(None, one(address.wrapping_add(1)), left)
        }
        Op::StoreHigh(n) => pairs_apart(None, one(high(n)), pairs),
        Op::StoreHighC => pairs_apart(bits, at_high(values), pairs),
        Op::StoreAbsolute(address) => pairs_apart(None, one(address), pairs),
        _ => pairs,
    }
}
