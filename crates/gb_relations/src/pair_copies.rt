//! A copy that makes two pairs equal, which then have the same bounds and links.

ghost use Rattle.std.specs.Prelude.{◌≡◌};
ghost use Rattle.gb_pairs.specs.Reduced.{with_facts};
ghost use Rattle.gb_relations.specs.PairCopies as PairCopies;

use crate::pairs::other_half;
use gb_domain::pairs::{PairFacts, Pairs, WordPair};
use gb_domain::places::OneByte;
use gb_ops::op::{Op, Operand, Register};
use gb_pairs::bounds::{bounds_of, facts_of};
use gb_pairs::copied::link_copied;
use gb_pairs::values::Values;
use gb_pairs::written::is_same_pair;

/// A pair that becomes equal to another one.
#[derive(Clone, Copy)]
pub struct PairCopy {
    pub to: WordPair,
    pub from: WordPair,
}

fn is_high(register: Register) -> bool
    ensures { result ≡ PairCopies.is_high register }
{
    matches!(register, Register::B | Register::D | Register::H)
}

fn is_low(register: Register) -> bool
    ensures { result ≡ PairCopies.is_low register }
{
    matches!(register, Register::C | Register::E | Register::L)
}

fn are_same_halves(to: Register, from: Register) -> bool
    ensures { result ≡ PairCopies.are_same_halves to from }
{
    is_high(to) && is_high(from) || is_low(to) && is_low(from)
}

fn hold_one_byte(x: Register, y: Register, byte: &OneByte) -> bool
    ensures { result ≡ PairCopies.hold_one_byte x y byte.now }
{
    byte.registers.get(x) && byte.registers.get(y)
}

/// Whether LD makes two pairs equal: of both registers the other byte of its pair is given, and the pair.
fn makes_equal(
    to: Register,
    from: Register,
    byte: &OneByte,
    x: (Register, WordPair),
    y: (Register, WordPair),
) -> bool
    ensures { result ≡ PairCopies.makes_equal to from byte.now x y }
{
    are_same_halves(to, from) && !is_same_pair(x.1, y.1) && hold_one_byte(x.0, y.0, byte)
}

fn copy_by(
    is_whole: bool,
    to: Register,
    from: Register,
    byte: &OneByte,
    x: Option<(Register, WordPair)>,
    y: Option<(Register, WordPair)>,
) -> Option<PairCopy>
    ensures { result ≡ PairCopies.copy_by is_whole to from byte.now x y }
{
    let (x, y) = (x?, y?);
    if is_whole && makes_equal(to, from, byte, x, y) {
        Some(PairCopy { to: x.1, from: y.1 })
    } else {
        None
    }
}

/// Which pair an instruction makes equal to which: LD between the high bytes, or the low bytes, of two pairs whose other bytes
/// hold one byte. The rules of version 4 know of it, `is_whole`.
#[tactic(auto, unfolding(crate::specs::PairCopies::pair_copy))]
fn pair_copy(is_whole: bool, op: Op, byte: &OneByte) -> Option<PairCopy>
    ensures { result ≡ PairCopies.pair_copy is_whole op byte.now }
{
    match op {
        Op::Load(Operand::Register(to), Operand::Register(from)) => {
            copy_by(is_whole, to, from, byte, other_half(to), other_half(from))
        }
        _ => None,
    }
}

/// What is known of a pair that becomes what another one is.
fn facts_copied(copy: PairCopy, values: &Values) -> PairFacts
    ensures { result ≡ PairCopies.facts_copied copy values.now }
{
    let link = facts_of(copy.from, &values.pairs).link;
    PairFacts {
        bounds: bounds_of(copy.from, values),
        link: Some(link_copied(copy.to, copy.from, link)),
    }
}

fn with_facts(pair: WordPair, facts: PairFacts, pairs: Pairs) -> Pairs
    ensures { result ≡ with_facts pair facts pairs }
{
    match pair {
        WordPair::Bc => Pairs { bc: facts, ..pairs },
        WordPair::De => Pairs { de: facts, ..pairs },
        WordPair::Hl => Pairs { hl: facts, ..pairs },
    }
}

/// The pairs behind an instruction, one of which has another one's bounds and link where it is a copy of it. The one byte and the values
/// are those before the instruction.
#[inline(always)]
pub(crate) fn copy_pair(
    is_whole: bool,
    op: Op,
    byte: &OneByte,
    values: &Values,
    pairs: Pairs,
) -> Pairs
    ensures { result ≡ PairCopies.with_pair_copied is_whole op byte.now values.now pairs }
{
    match pair_copy(is_whole, op, byte) {
        None => pairs,
        Some(copy) => with_facts(copy.to, facts_copied(copy, values), pairs),
    }
}
