//! What pairs tell of an instruction beside themselves: the addresses of the byte that it reads or writes by a pair, and the
//! carry of ADD HL.

ghost use Rattle.std.specs.Prelude.{◌≡◌};
ghost use Rattle.gb_ops.specs.declared.op.Op.TheVariants.{AddHl};
ghost use Rattle.gb_pairs.specs.Bounds.{bounds_of};
ghost use Rattle.gb_relations.specs.Transfer.{values_of};
ghost use Rattle.gb_relations.specs.Pointers as Pointers;
ghost use Rattle.gb_relations.specs.Pointers.{IsSoundPointer, IsSoundCarry};

use crate::pairs::{addend, is_hl};
use crate::transfer::holds_words;
use gb_domain::pairs::{Bounds, Pairs, WordPair};
use gb_domain::types::{Rules, Val};
use gb_ops::op::{Op, Pair, Pointer};
use gb_ops::registers::Registers;
use gb_pairs::bounds::bounds_of;
use gb_pairs::moved::added;
use gb_pairs::values::Values;

/// The pair of a pointer. FF00+C is none.
fn pair_at(pointer: Pointer) -> Option<WordPair>
    ensures { result ≡ Pointers.pair_at pointer }
{
    match pointer {
        Pointer::Bc => Some(WordPair::Bc),
        Pointer::De => Some(WordPair::De),
        Pointer::Hl => Some(WordPair::Hl),
        Pointer::HighC => None,
    }
}

/// The pair of a pointer, where there is one.
fn pair_pointed(pointer: Option<Pointer>) -> Option<WordPair>
    ensures { result ≡ Pointers.pair_pointed pointer }
{
    pair_at(pointer?)
}

/// The pair that holds the address of the byte that an instruction reads or writes, or that it jumps or sets SP to.
#[tactic(auto, unfolding(crate::specs::Pointers::pointer_of))]
fn pointer_of(op: Op) -> Option<WordPair>
    ensures { result ≡ Pointers.pointer_of op }
{
    match op {
        Op::JumpHl | Op::LoadSpHl => Some(WordPair::Hl),
        _ => pair_pointed(op.pointer()),
    }
}

/// The bounds of a pair, kept out of line, so that the values are copied only where one is asked for.
#[inline(never)]
fn pair_bounds(pair: WordPair, registers: &Registers<Val>, pairs: &Pairs) -> Bounds
    ensures { result ≡ bounds_of pair (values_of registers.now pairs.now) }
{
    let values = Values {
        registers: *registers,
        pairs: *pairs,
    };
    bounds_of(pair, &values)
}

#[inline(always)]
#[tactic(auto, unfolding(crate::specs::Pointers::pointer_bounds))]
fn bounds_at(rules: Rules, op: Op, registers: &Registers<Val>, pairs: &Pairs) -> Option<Bounds>
    ensures { result ≡ Pointers.pointer_bounds rules op registers.now pairs.now }
{
    if rules == Rules::Simple {
        return None;
    }
    let pointer = pointer_of(op)?;
    Some(pair_bounds(pointer, registers, pairs))
}

/// The addresses of the byte that an instruction reads or writes, where a pair holds its address: the pair's bounds, as registers
/// and pairs are before it. None where no pair does, and by the rules of versions 1 and 2.
#[inline(always)]
#[tactic(auto, using(crate::proofs::PointerLaws::pointer_bounds_sound))]
pub fn pointer_bounds(
    rules: Rules,
    op: Op,
    registers: &Registers<Val>,
    pairs: &Pairs,
) -> Option<Bounds>
    ensures exact { result ≡ Pointers.pointer_bounds rules op registers.now pairs.now }
    ensures sound { IsSoundPointer op registers.now pairs.now result }
{
    bounds_at(rules, op, registers, pairs)
}

/// The carry of ADD HL, by the rules of version 3.
#[inline(never)]
fn sum_carry(pair: Pair, sp: Bounds, registers: &Registers<Val>, pairs: &Pairs) -> Option<bool>
    ensures { result ≡ Pointers.carry_after (AddHl pair) sp (values_of registers.now pairs.now) }
{
    let values = Values {
        registers: *registers,
        pairs: *pairs,
    };
    added(addend(pair, sp, &values), is_hl(pair), None, &values).carry
}

#[inline(always)]
#[tactic(auto, unfolding(crate::specs::Pointers::known_carry))]
fn carry_after(
    rules: Rules,
    op: Op,
    sp: Bounds,
    registers: &Registers<Val>,
    pairs: &Pairs,
) -> Option<bool>
    ensures { result ≡ Pointers.known_carry rules op sp registers.now pairs.now }
{
    if rules == Rules::Simple {
        return None;
    }
    match op {
        Op::AddHl(pair) => sum_carry(pair, sp, registers, pairs),
        _ => None,
    }
}

/// The carry of ADD HL, where it is known, as registers and pairs are before it, and SP has these bounds. None for other
/// instructions, and by the rules of versions 1 and 2.
#[inline(always)]
#[tactic(auto, using(crate::proofs::PointerLaws::known_carry_sound))]
pub fn known_carry(
    rules: Rules,
    op: Op,
    sp: Bounds,
    registers: &Registers<Val>,
    pairs: &Pairs,
) -> Option<bool>
    ensures exact { result ≡ Pointers.known_carry rules op sp registers.now pairs.now }
    ensures sound { IsSoundCarry op sp registers.now pairs.now result }
{
    holds_words(*pairs);
    carry_after(rules, op, sp, registers, pairs)
}
