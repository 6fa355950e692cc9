//! What a conditional instruction learns from its condition.

ghost use Rattle.std.specs.Prelude.{◌≡◌, Some, true, false, IfSome};
ghost use Rattle.gb_abs_effects.specs.Sides.{side_of};
ghost use Rattle.gb_product.specs.Sides as Branching;
ghost use Rattle.gb_product.specs.Sound.{IsSoundSide, IsSideOf, AreSoundSides, AreSidesOf};

use crate::bytes::byte_in;
use crate::parts::{Branch, Branches, holds_words};
use gb_abs_effects::any;
use gb_abs_effects::sides::{condition_of, opposite, side_of};
use gb_domain::pairs::{Bounds, WordPair};
use gb_domain::program::Program;
use gb_domain::relations::Relations;
use gb_domain::summary::Summary;
use gb_domain::types::{Cell, Core, Val};
use gb_ops::op::{Condition, Op};
use gb_summaries::{PlaceContents, Values, narrowed, restricted};

/// What a state with these cells, and what it says of the whole program, knows of the byte at the address among the places; any
/// where there is none.
pub fn memory_of(
    program: &Program<'_>,
    values: &Values,
    cells: &[Cell],
    summary: &Summary,
    address: Option<u16>,
) -> Val
    ensures exact { result ≡ Branching.memory_of program.now values.now cells.now summary.now address }
{
    match address {
        None => any(),
        Some(address) => byte_in(program, values, cells, summary, address),
    }
}

/// The address among the places with its value, where that isn't any byte.
fn known_cell(address: Option<u16>, val: Val) -> Option<Cell>
    ensures { result ≡ Branching.known_cell address val }
{
    let address = address?;
    if val.lo == 0 && val.hi == 255 {
        return None;
    }
    Some(Cell { address, val })
}

/// What a condition leaves where Z says whether a pair is 0.
fn without_others(zero: Option<WordPair>, condition: Condition, values: &Values) -> Option<Values>
    ensures { result ≡ Branching.without_others zero condition values.now }
{
    let Some(pair) = zero else {
        return Some(*values);
    };
    match condition {
        Condition::Zero => restricted(pair, Bounds { first: 0, last: 0 }, values),
        Condition::NotZero => restricted(
            pair,
            Bounds {
                first: 1,
                last: 0xFFFF,
            },
            values,
        ),
        Condition::Carry | Condition::NotCarry => Some(*values),
    }
}

/// The side where a condition is met, by what the flags say of a byte and of a pair.
#[tactic(auto, unfolding(crate::specs::Sides::narrowed_side))]
fn narrowed_side(
    condition: Condition,
    memory: Val,
    relations: &Relations,
    core: Core,
) -> Option<Branch>
    ensures { result ≡ Branching.narrowed_side condition memory relations.now core }
{
    let byte = &relations.byte;
    let contents = PlaceContents {
        registers: core.registers,
        memory,
    };
    let left = narrowed(byte, condition, &contents)?;
    let values = Values {
        registers: left.registers,
        pairs: relations.pairs,
    };
    let values = without_others(relations.zero, condition, &values)?;
    Some(Branch {
        core: Core {
            registers: values.registers,
            ..core
        },
        relations: Relations {
            pairs: values.pairs,
            ..*relations
        },
        cell: known_cell(byte.address, left.memory),
    })
}

/// The side of a core where a condition is met.
fn side_met(condition: Condition, memory: Val, core: &Core, relations: &Relations) -> Option<Branch>
    ensures { result ≡ Branching.side_where (Some condition) memory relations.now (side_of condition core.now) }
{
    narrowed_side(condition, memory, relations, side_of(condition, core)?)
}

#[tactic(auto, unfolding(crate::specs::Sides::taken_side, gb_abs_effects::specs::Sides::sides_of))]
fn where_taken(op: Op, memory: Val, core: &Core, relations: &Relations) -> Option<Branch>
    ensures { result ≡ Branching.taken_side op memory core.now relations.now }
{
    match condition_of(op) {
        None => Some(Branch {
            core: *core,
            relations: *relations,
            cell: None,
        }),
        Some(condition) => side_met(condition, memory, core, relations),
    }
}

#[tactic(auto, unfolding(crate::specs::Sides::not_taken_side, gb_abs_effects::specs::Sides::sides_of))]
fn where_not_taken(op: Op, memory: Val, core: &Core, relations: &Relations) -> Option<Branch>
    ensures { result ≡ Branching.not_taken_side op memory core.now relations.now }
{
    match condition_of(op) {
        None => None,
        Some(condition) => side_met(opposite(condition), memory, core, relations),
    }
}

#[tactic(auto, unfolding(crate::specs::Sides::sides_of))]
fn both_sides(op: Op, memory: Val, core: &Core, relations: &Relations) -> Branches
    ensures { result ≡ Branching.sides_of op memory core.now relations.now }
{
    Branches {
        taken: where_taken(op, memory, core, relations),
        not_taken: where_not_taken(op, memory, core, relations),
    }
}

/// The side where an instruction is taken, from a state with this core and these relations, and of the byte at the address among the
/// places this is known: its condition's flag is known, the places of a byte that the flags speak of are narrowed to what the condition leaves, and so is a pair of which Z
/// says whether it is 0. Where nothing is left the side isn't possible. An instruction without a condition leaves all as it is.
#[tactic(auto, using(crate::proofs::SideLaws::taken_side_sound_of_words, crate::proofs::SideLaws::taken_side_cuts))]
pub fn taken_side(op: Op, memory: Val, core: &Core, relations: &Relations) -> Option<Branch>
    ensures exact { result ≡ Branching.taken_side op memory core.now relations.now }
    ensures sound { IsSoundSide true op memory core.now relations.now result }
    ensures kept { IfSome result (IsSideOf memory core.now relations.now) }
{
    holds_words(relations.pairs);
    where_taken(op, memory, core, relations)
}

/// The side where an instruction isn't taken; one without a condition has none.
#[tactic(auto, using(crate::proofs::SideLaws::not_taken_side_sound_of_words, crate::proofs::SideLaws::not_taken_side_cuts))]
pub fn not_taken_side(op: Op, memory: Val, core: &Core, relations: &Relations) -> Option<Branch>
    ensures exact { result ≡ Branching.not_taken_side op memory core.now relations.now }
    ensures sound { IsSoundSide false op memory core.now relations.now result }
    ensures kept { IfSome result (IsSideOf memory core.now relations.now) }
{
    holds_words(relations.pairs);
    where_not_taken(op, memory, core, relations)
}

/// Both sides of an instruction. That of the machine's own condition is possible, and means the machine's state.
pub fn sides_of(op: Op, memory: Val, core: &Core, relations: &Relations) -> Branches
    ensures exact { result ≡ Branching.sides_of op memory core.now relations.now }
    ensures sound { AreSoundSides op memory core.now relations.now result }
    ensures kept { AreSidesOf memory core.now relations.now result }
{
    holds_words(relations.pairs);
    both_sides(op, memory, core, relations)
}
