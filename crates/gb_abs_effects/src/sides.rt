//! The sides of an instruction: taken, and not taken.

ghost use Rattle.std.specs.Prelude.{◌≡◌};
ghost use Rattle.gb_domain.specs.Rules.{IsCore};
ghost use Rattle.gb_abs_effects.specs.Sides as Branching;
ghost use Rattle.gb_abs_effects.specs.Sound.{AreSoundSides, AreSides};

use gb_abs::side;
use gb_domain::types::Core;
use gb_ops::op::{Condition, Op};

/// The core on each side of an instruction, where that side is possible.
#[derive(Clone, Copy, PartialEq, Eq)]
pub struct Sides {
    pub taken: Option<Core>,
    pub not_taken: Option<Core>,
}

pub fn opposite(condition: Condition) -> Condition
    ensures { result ≡ Branching.opposite condition }
{
    match condition {
        Condition::NotZero => Condition::Zero,
        Condition::Zero => Condition::NotZero,
        Condition::NotCarry => Condition::Carry,
        Condition::Carry => Condition::NotCarry,
    }
}

pub fn condition_of(op: Op) -> Option<Condition>
    ensures { result ≡ Branching.condition_of op }
{
    match op {
        Op::JumpRelativeIf(condition, _)
        | Op::ReturnIf(condition)
        | Op::JumpIf(condition, _)
        | Op::CallIf(condition, _) => Some(condition),
        _ => None,
    }
}

/// The core where a condition is met, if that is possible.
#[tactic(auto, unfolding(crate::specs::Sides::side_of))]
pub fn side_of(condition: Condition, core: &Core) -> Option<Core>
    ensures { result ≡ Branching.side_of condition core.now }
{
    let flags = side(condition, core.flags)?;
    Some(Core { flags, ..*core })
}

/// The possible sides of an instruction: its condition's flag is known, all else is as it was. An instruction without a condition has the taken side alone.
/// The side of the machine's own condition is possible, and means the machine's state.
#[tactic(auto, using(crate::proofs::SideLaws::sides_of_sound))]
pub fn sides_of(op: Op, core: &Core) -> Sides
    ensures exact { result ≡ Branching.sides_of op core.now }
    ensures sound { AreSoundSides op core.now result }
    ensures inhabited { IsCore core.now → AreSides result }
{
    both_sides(op, core)
}

#[tactic(auto, unfolding(crate::specs::Sides::sides_of))]
fn both_sides(op: Op, core: &Core) -> Sides
    ensures { result ≡ Branching.sides_of op core.now }
{
    match condition_of(op) {
        None => Sides {
            taken: Some(*core),
            not_taken: None,
        },
        Some(condition) => Sides {
            taken: side_of(condition, core),
            not_taken: side_of(opposite(condition), core),
        },
    }
}
