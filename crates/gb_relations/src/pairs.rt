//! What an instruction leaves of the pairs.

ghost use Rattle.std.specs.Prelude.{◌≡◌};
ghost use Rattle.gb_relations.specs.Written.{list_of};
ghost use Rattle.gb_relations.specs.Pairs.{without_registers, other_half, pair_of, after_increment, after_decrement, after_indirect, addend, is_hl, added_pair, pairs_after};

use crate::written::{Written, written_by};
use gb_domain::pairs::{Bounds, Pairs, WordPair};
use gb_ops::op::{Indirect, Op, Operand, Pair, Register};
use gb_pairs::bounds::bounds_of;
use gb_pairs::moved::{added, byte_decremented, byte_incremented, decremented, incremented};
use gb_pairs::values::Values;
use gb_pairs::written::without_register;

fn without_registers(written: Written, pairs: &Pairs) -> Pairs
    ensures { result ≡ without_registers (list_of written) pairs.now }
{
    match written {
        Written::Nothing => *pairs,
        Written::One(q) => without_register(q, pairs),
        Written::Two(q, r) => without_register(r, &without_register(q, pairs)),
        Written::Three(q, r, s) => {
            let left = without_register(r, &without_register(q, pairs));
            without_register(s, &left)
        }
    }
}

/// The other byte of a register's pair, and the pair.
pub(crate) fn other_half(register: Register) -> Option<(Register, WordPair)>
    ensures { result ≡ other_half register }
{
    match register {
        Register::A => None,
        Register::B => Some((Register::C, WordPair::Bc)),
        Register::C => Some((Register::B, WordPair::Bc)),
        Register::D => Some((Register::E, WordPair::De)),
        Register::E => Some((Register::D, WordPair::De)),
        Register::H => Some((Register::L, WordPair::Hl)),
        Register::L => Some((Register::H, WordPair::Hl)),
    }
}

fn pair_of(pair: Pair) -> Option<WordPair>
    ensures { result ≡ pair_of pair }
{
    match pair {
        Pair::Bc => Some(WordPair::Bc),
        Pair::De => Some(WordPair::De),
        Pair::Hl => Some(WordPair::Hl),
        Pair::Sp => None,
    }
}

fn after_increment(pair: Option<WordPair>, values: &Values) -> Pairs
    ensures { result ≡ after_increment pair values.now }
{
    match pair {
        None => values.pairs,
        Some(pair) => incremented(pair, values),
    }
}

fn after_decrement(pair: Option<WordPair>, values: &Values) -> Pairs
    ensures { result ≡ after_decrement pair values.now }
{
    match pair {
        None => values.pairs,
        Some(pair) => decremented(pair, values),
    }
}

/// HL counts, where the operand says so.
fn after_indirect(indirect: Indirect, values: &Values) -> Pairs
    ensures { result ≡ after_indirect indirect values.now }
{
    match indirect {
        Indirect::HlIncrement => incremented(WordPair::Hl, values),
        Indirect::HlDecrement => decremented(WordPair::Hl, values),
        _ => values.pairs,
    }
}

/// What ADD HL adds, where SP has these bounds.
pub fn addend(pair: Pair, sp: Bounds, values: &Values) -> Bounds
    ensures { result ≡ addend pair sp values.now }
{
    match pair {
        Pair::Bc => bounds_of(WordPair::Bc, values),
        Pair::De => bounds_of(WordPair::De, values),
        Pair::Hl => bounds_of(WordPair::Hl, values),
        Pair::Sp => sp,
    }
}

/// Whether a pair is HL.
pub fn is_hl(pair: Pair) -> bool
    ensures { result ≡ is_hl pair }
{
    matches!(pair, Pair::Hl)
}

/// The pair whose word is added, of which the rules of version 4 know.
fn added_pair(is_whole: bool, pair: Pair) -> Option<WordPair>
    ensures { result ≡ added_pair is_whole pair }
{
    if is_whole { pair_of(pair) } else { None }
}

/// The pairs behind a taken instruction, by the rules of version 4, `is_whole`, or of version 3; the values are those before it,
/// and SP has these bounds.
#[tactic(auto, unfolding(crate::specs::Pairs::pairs_after))]
pub(crate) fn pairs_after(is_whole: bool, op: Op, sp: Bounds, values: &Values) -> Pairs
    ensures { result ≡ pairs_after is_whole op sp values.now }
{
    match op {
        Op::StoreA(to) => after_indirect(to, values),
        Op::LoadA(from) => without_register(Register::A, &after_indirect(from, values)),
        Op::IncrementPair(pair) => after_increment(pair_of(pair), values),
        Op::DecrementPair(pair) => after_decrement(pair_of(pair), values),
        Op::Increment(Operand::Register(register)) => byte_incremented(register, values),
        Op::Decrement(Operand::Register(register)) => byte_decremented(register, values),
        Op::AddHl(pair) => {
            let from = added_pair(is_whole, pair);
            added(addend(pair, sp, values), is_hl(pair), from, values).pairs
        }
        _ => without_registers(written_by(op), &values.pairs),
    }
}
