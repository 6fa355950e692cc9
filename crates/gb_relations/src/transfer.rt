//! What an instruction leaves of what is known of several parts together.

ghost use Rattle.std.specs.Prelude.{◌≡◌, ◌<◌, ℕ, Bool, true};
ghost use Rattle.gb_domain.specs.declared.rules.Rules.TheVariants.{Extended};
ghost use Rattle.gb_domain.specs.Pairs.{ArePairs};
ghost use Rattle.gb_pairs.specs.Written as Halves;
ghost use Rattle.gb_relations.specs.Written.{list_of};
ghost use Rattle.gb_relations.specs.Transfer as Transfer;
ghost use Rattle.gb_relations.specs.Sound.{HasBytes, IsSoundTransfer};

use crate::bytes::byte_after;
use crate::cell_links::cells_after;
use crate::compared::compared_after;
use crate::pair_copies::copy_pair;
use crate::pairs::{other_half, pairs_after};
use crate::pointed_bits::known_bits;
use crate::written::{Written, writes_flags, written_by};
use gb_domain::pairs::{Bounds, Pairs, WordPair};
use gb_domain::places::{OneByte, StackBytes};
use gb_domain::relations::Relations;
use gb_domain::types::{Rules, Val};
use gb_ops::op::{AluOp, Op, Operand, Register};
use gb_ops::registers::Registers;
use gb_pairs::values::Values;
use gb_pairs::written::is_half;

fn zero_without(register: Register, zero: Option<WordPair>) -> Option<WordPair>
    ensures { result ≡ Transfer.zero_without register zero }
{
    let pair = zero?;
    if is_half(register, pair) {
        None
    } else {
        Some(pair)
    }
}

fn zero_without_registers(written: Written, zero: Option<WordPair>) -> Option<WordPair>
    ensures { result ≡ Transfer.zero_without_registers (list_of written) zero }
{
    match written {
        Written::Nothing => zero,
        Written::One(q) => zero_without(q, zero),
        Written::Two(q, r) => zero_without(r, zero_without(q, zero)),
        Written::Three(q, r, s) => zero_without(s, zero_without(r, zero_without(q, zero))),
    }
}

fn zero_by(half: Option<(Register, WordPair)>, byte: &OneByte) -> Option<WordPair>
    ensures { result ≡ Transfer.zero_by half byte.now }
{
    let (register, pair) = half?;
    if byte.registers.a && byte.registers.get(register) {
        Some(pair)
    } else {
        None
    }
}

/// The pair of which Z says whether it is 0. OR with one of its bytes computes that, where A holds the other one.
#[tactic(auto, unfolding(crate::specs::Transfer::zero_after))]
fn zero_after(op: Op, byte: &OneByte, zero: Option<WordPair>) -> Option<WordPair>
    ensures { result ≡ Transfer.zero_after op byte.now zero }
{
    match op {
        Op::Alu(AluOp::Or, Operand::Register(register)) => zero_by(other_half(register), byte),
        _ if writes_flags(op) => None,
        _ => zero_without_registers(written_by(op), zero),
    }
}

/// An instruction's numbers are bytes and words.
fn holds_bytes(op: Op)
    ensures { HasBytes op }
{}

/// The bounds of pairs are words.
pub(crate) fn holds_words(pairs: Pairs)
    ensures bc { pairs.bc.bounds.last < 65536 }
    ensures de { pairs.de.bounds.last < 65536 }
    ensures hl { pairs.hl.bounds.last < 65536 }
{}

/// By the rules of versions 3 and 4.
#[inline(never)]
#[tactic(auto, unfolding(crate::specs::Transfer::relations_after))]
fn related_after(
    is_whole: bool,
    stack: StackBytes,
    op: Op,
    sp: Bounds,
    registers: &Registers<Val>,
    low: Val,
    relations: &Relations,
) -> Relations
    ensures { result ≡ Transfer.relations_after Extended is_whole stack op sp registers.now low relations.now }
{
    let values = Values {
        registers: *registers,
        pairs: relations.pairs,
    };
    let byte = &relations.byte;
    let bits = known_bits(Rules::Extended, is_whole, op, registers);
    let pairs = pairs_after(is_whole, op, sp, &values);
    let pairs = copy_pair(is_whole, op, byte, &values, pairs);
    Relations {
        byte: byte_after(bits, stack, op, &values, low, byte),
        zero: zero_after(op, byte, relations.zero),
        pairs: cells_after(bits, op, &values, low, pairs),
    }
}

/// Whether an instruction writes neither a register of those, nor a flag, nor a byte but on the stack: then all stays known.
#[inline(always)]
#[tactic(auto, unfolding(crate::specs::Transfer::relations_after, crate::specs::Bytes::byte_after, crate::specs::CellLinks::cells_after, crate::specs::Transfer::zero_after, crate::specs::Pairs::pairs_after, crate::specs::PairCopies::pair_copy, crate::specs::Written::written, crate::specs::Written::writes_flags))]
fn leaves_all_known(op: Op) -> bool
    ensures { result ≡ true → (is_whole : Bool) (stack : StackBytes) (sp : Bounds) (registers : Registers Val) (low : Val) (r : Relations) → Transfer.relations_after Extended is_whole stack op sp registers low r ≡ r }
{
    matches!(
        op,
        Op::Nop
            | Op::JumpRelative(_)
            | Op::JumpRelativeIf(_, _)
            | Op::Jump(_)
            | Op::JumpIf(_, _)
            | Op::JumpHl
            | Op::Call(_)
            | Op::CallIf(_, _)
            | Op::Restart(_)
            | Op::Return
            | Op::ReturnIf(_)
            | Op::ReturnFromInterrupt
            | Op::Push(_)
            | Op::DisableInterrupts
            | Op::EnableInterrupts
    )
}

#[inline(always)]
#[tactic(auto, unfolding(crate::specs::Transfer::relations_after))]
fn apply(
    rules: Rules,
    is_whole: bool,
    stack: StackBytes,
    op: Op,
    sp: Bounds,
    registers: &Registers<Val>,
    low: Val,
    relations: &Relations,
) -> Relations
    ensures { result ≡ Transfer.relations_after rules is_whole stack op sp registers.now low relations.now }
{
    match rules {
        Rules::Simple => Relations {
            byte: compared_after(op, &relations.byte),
            ..Relations::default()
        },
        Rules::Extended => {
            if leaves_all_known(op) {
                *relations
            } else {
                related_after(is_whole, stack, op, sp, registers, low, relations)
            }
        }
    }
}

/// What is known together behind a taken instruction. Registers and relations are those before it, SP has these bounds, and
/// `low` is what it read at an address. By the rules of versions 1 and 2 that is a comparison of A alone.
#[inline(always)]
#[tactic(auto, using(crate::proofs::TransferLaws::relations_after_sound, crate::proofs::TransferLaws::relations_after_kept))]
pub fn relations_after(
    rules: Rules,
    is_whole: bool,
    stack: StackBytes,
    op: Op,
    sp: Bounds,
    registers: &Registers<Val>,
    low: Val,
    relations: &Relations,
) -> Relations
    ensures exact { result ≡ Transfer.relations_after rules is_whole stack op sp registers.now low relations.now }
    ensures sound { IsSoundTransfer stack op sp registers.now low relations.now result }
    ensures kept { (may_be : ℕ → Bool) → ArePairs may_be relations.now.pairs → ArePairs may_be result.pairs }
{
    holds_bytes(op);
    holds_words(relations.pairs);
    apply(rules, is_whole, stack, op, sp, registers, low, relations)
}
