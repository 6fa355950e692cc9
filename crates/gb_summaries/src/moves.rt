//! How far an instruction moves the pointers at which fills end, and what it leaves of the fills.

ghost use Rattle.std.specs.Prelude.{◌≡◌, ◌≤◌, length};
ghost use Rattle.gb_relations.specs.Written.{list_of};
ghost use Rattle.gb_summaries.specs.Moves as Moves;
ghost use Rattle.gb_summaries.specs.Moves.{AreSoundFills, AreSoundMoves};

use arrayvec::ArrayVec;
use gb_domain::pairs::Bounds;
use gb_domain::summary::{Fill, FillEnd};
use gb_domain::types::Val;
use gb_ops::op::{Indirect, Op, Operand, Pair, Register};
use gb_ram_bounds::Pointers;
use gb_ram_bounds::fills::{lowered, raised, written};
use gb_relations::Values;
use gb_relations::bytes::at_hl;
use gb_relations::pairs::{addend, is_hl};
use gb_relations::written::{Written, written_by};

/// How far a pointer moves, for all its values.
#[derive(Clone, Copy)]
pub enum Move {
    Stays,
    /// It gets so much more, without a wrap.
    Rises(u16),
    /// It gets so much less.
    Falls(u16),
    /// It gets some other value.
    Lost,
}

/// No pointer moves.
const NO_MOVE: Pointers<Move> = Pointers {
    bc: Move::Stays,
    de: Move::Stays,
    hl: Move::Stays,
    high_c: Move::Stays,
};

fn step_up(pointer: Bounds) -> Move
    ensures { result ≡ Moves.step_up pointer }
{
    if pointer.last < 65_535 {
        Move::Rises(1)
    } else {
        Move::Lost
    }
}

fn step_down(pointer: Bounds) -> Move
    ensures { result ≡ Moves.step_down pointer }
{
    if 0 < pointer.first {
        Move::Falls(1)
    } else {
        Move::Lost
    }
}

/// A byte's step where it counts so much in the pointer.
fn byte_up(val: Val, weight: u16) -> Move
    requires { weight ≤ 256 }
    ensures { result ≡ Moves.byte_up val weight }
{
    if val.hi < 255 {
        Move::Rises(weight)
    } else if val.lo == 255 {
        Move::Falls(255 * weight)
    } else {
        Move::Lost
    }
}

fn byte_down(val: Val, weight: u16) -> Move
    requires { weight ≤ 256 }
    ensures { result ≡ Moves.byte_down val weight }
{
    if 0 < val.lo {
        Move::Falls(weight)
    } else if val.hi == 0 {
        Move::Rises(255 * weight)
    } else {
        Move::Lost
    }
}

/// What a pointer gets more as a known word is added, if the sum wraps never or always.
fn sum_move(pointer: Bounds, word: u16) -> Move
    ensures { result ≡ Moves.sum_move pointer word }
{
    let first = u32::from(pointer.first) + u32::from(word);
    let last = u32::from(pointer.last) + u32::from(word);
    if last < 65_536 {
        Move::Rises(word)
    } else if 65_536 <= first {
        Move::Falls((65_536 - u32::from(word)) as u16)
    } else {
        Move::Lost
    }
}

/// A byte moves, as a pointer's low byte and as its high byte.
fn at_byte(register: Register, low: Move, high: Move) -> Pointers<Move>
    ensures { result ≡ Moves.at_byte register low high }
{
    let mut moves = NO_MOVE;
    match register {
        Register::A => {}
        Register::B => moves.bc = high,
        Register::C => {
            moves.bc = low;
            moves.high_c = low;
        }
        Register::D => moves.de = high,
        Register::E => moves.de = low,
        Register::H => moves.hl = high,
        Register::L => moves.hl = low,
    }
    moves
}

/// A pair moves, whose low byte may be another pointer's.
fn at_pair(pair: Pair, by: Move) -> Pointers<Move>
    ensures { result ≡ Moves.at_pair pair by }
{
    let mut moves = NO_MOVE;
    match pair {
        Pair::Bc => {
            moves.bc = by;
            moves.high_c = Move::Lost;
        }
        Pair::De => moves.de = by,
        Pair::Hl => moves.hl = by,
        Pair::Sp => {}
    }
    moves
}

fn counted(indirect: Indirect, hl: Bounds) -> Pointers<Move>
    ensures { result ≡ Moves.counted indirect hl }
{
    match indirect {
        Indirect::HlIncrement => at_pair(Pair::Hl, step_up(hl)),
        Indirect::HlDecrement => at_pair(Pair::Hl, step_down(hl)),
        _ => NO_MOVE,
    }
}

/// A byte of pointers is written.
fn without_byte(register: Register, moves: Pointers<Move>) -> Pointers<Move>
    ensures { result ≡ Moves.without_byte register moves }
{
    let mut moves = moves;
    match register {
        Register::A => {}
        Register::B => moves.bc = Move::Lost,
        Register::C => {
            moves.bc = Move::Lost;
            moves.high_c = Move::Lost;
        }
        Register::D | Register::E => moves.de = Move::Lost,
        Register::H | Register::L => moves.hl = Move::Lost,
    }
    moves
}

fn without_bytes(written: Written) -> Pointers<Move>
    ensures { result ≡ Moves.without_bytes (list_of written) }
{
    match written {
        Written::Nothing => NO_MOVE,
        Written::One(q) => without_byte(q, NO_MOVE),
        Written::Two(q, r) => without_byte(q, without_byte(r, NO_MOVE)),
        Written::Three(q, r, s) => without_byte(q, without_byte(r, without_byte(s, NO_MOVE))),
    }
}

/// HL gets another pair more.
fn added(pair: Pair, word: Bounds, hl: Bounds) -> Move
    ensures { result ≡ Moves.added pair word hl }
{
    if !is_hl(pair) && word.first == word.last {
        sum_move(hl, word.first)
    } else {
        Move::Lost
    }
}

#[tactic(auto, unfolding(crate::specs::Moves::moves_of))]
fn moved_by(op: Op, sp: Bounds, values: &Values) -> Pointers<Move>
    ensures { result ≡ Moves.moves_of op sp values.now }
{
    match op {
        Op::StoreA(to) => counted(to, at_hl(values)),
        Op::LoadA(from) => counted(from, at_hl(values)),
        Op::IncrementPair(pair) => at_pair(pair, step_up(addend(pair, sp, values))),
        Op::DecrementPair(pair) => at_pair(pair, step_down(addend(pair, sp, values))),
        Op::Increment(Operand::Register(register)) => {
            let val = values.registers.get(register);
            at_byte(register, byte_up(val, 1), byte_up(val, 256))
        }
        Op::Decrement(Operand::Register(register)) => {
            let val = values.registers.get(register);
            at_byte(register, byte_down(val, 1), byte_down(val, 256))
        }
        Op::AddHl(pair) => Pointers {
            hl: added(pair, addend(pair, sp, values), at_hl(values)),
            ..NO_MOVE
        },
        _ => without_bytes(written_by(op)),
    }
}

/// How far a taken instruction moves each pointer, as far as its values before it tell; SP has these bounds.
#[tactic(auto, using(crate::proofs::MoveLaws::moves_of_sound))]
pub fn moves_of(op: Op, sp: Bounds, values: &Values) -> Pointers<Move>
    ensures exact { result ≡ Moves.moves_of op sp values.now }
    ensures sound { AreSoundMoves op sp values.now result }
{
    moved_by(op, sp, values)
}

fn moved_end(by: Move, end: FillEnd, pointers: &Pointers<Bounds>, fill: Fill) -> Option<Fill>
    ensures { result ≡ Moves.moved_end by end pointers.now fill }
{
    match by {
        Move::Stays => Some(fill),
        Move::Rises(n) => raised(end.pointer, n, pointers, fill),
        Move::Falls(n) => lowered(end.pointer, n, pointers, fill),
        Move::Lost => written(end.pointer, pointers, fill),
    }
}

#[tactic(auto, unfolding(crate::specs::Moves::moved))]
fn moved(moves: &Pointers<Move>, pointers: &Pointers<Bounds>, fill: Fill) -> Option<Fill>
    ensures { result ≡ Moves.moved moves.now pointers.now fill }
{
    match fill.end {
        Some(end) => moved_end(moves.get(end.pointer), end, pointers, fill),
        None => Some(fill),
    }
}

#[tactic(auto, unfolding(crate::specs::Moves::fills_moved))]
fn left_of_fills(
    moves: &Pointers<Move>,
    pointers: &Pointers<Bounds>,
    fills: &[Fill],
) -> ArrayVec<Fill, 8>
    requires { length fills.now ≤ 8 }
    ensures { result.items ≡ Moves.fills_moved moves.now pointers.now fills.now }
{
    let mut left = ArrayVec::new();
    for fill in fills {
        if let Some(fill) = moved(moves, pointers, *fill) {
            left.push(fill);
        }
    }
    left
}

/// What is left of fills where pointers move so far; of one that ends at a pointer that is lost its extent, by the pointers' bounds
/// before.
#[tactic(auto, using(crate::proofs::MoveLaws::fills_moved_sound))]
pub fn fills_moved(
    moves: &Pointers<Move>,
    pointers: &Pointers<Bounds>,
    fills: &[Fill],
) -> ArrayVec<Fill, 8>
    requires { length fills.now ≤ 8 }
    ensures exact { result.items ≡ Moves.fills_moved moves.now pointers.now fills.now }
    ensures sound { AreSoundFills moves.now pointers.now fills.now result.items }
{
    left_of_fills(moves, pointers, fills)
}
