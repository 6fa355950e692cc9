//! Where instructions go on.

ghost use Rattle.std.specs.Prelude.{◌≡◌};
ghost use Rattle.gb_abs_effects.specs.Targets as Targets;
ghost use Rattle.gb_domain.specs.Rules.{IsCore};
ghost use Rattle.gb_abs_effects.specs.Sound.{HasBytes, IsSoundTarget, IsTargetAt};

use crate::pairs::{is_word_known, least_word, pair_halves};
use gb_abs::displaced;
use gb_domain::types::{Core, Halves};
use gb_ops::op::{Op, Pair};

/// Where an instruction goes on.
#[derive(Clone, Copy, PartialEq, Eq)]
pub enum Target {
    /// At this address.
    At(u16),
    /// At this address, with the address behind the instruction on the stack.
    Call(u16),
    /// At the word on top of the stack.
    Return,
    /// Somewhere: JP HL, where HL isn't known.
    Unknown,
    /// At this address in procedure 0, with all frames that waited gone: SP was set to an address of its stack.
    Main(u16),
    /// Somewhere: a word from the stack that isn't known.
    Lost,
}

/// The address in a pair of registers, where it is known.
fn word_target(halves: Halves) -> Target
    ensures { result ≡ Targets.word_target halves }
{
    if is_word_known(halves) {
        Target::At(least_word(halves))
    } else {
        Target::Unknown
    }
}

/// Where an instruction that is taken goes on (CPU instruction set: jumps and subroutines). The address
/// behind it is given. What returns, and JP HL where HL isn't known, may go on anywhere.
/// It never answers `Main` or `Lost`, which depend on the stack too.
#[inline(always)]
#[tactic(auto, using(crate::proofs::TargetLaws::target_of_sound, crate::proofs::TargetLaws::target_of_at))]
pub fn target_of(op: Op, next: u16, core: &Core) -> Target
    ensures exact { result ≡ Targets.target_of op next core.now }
    ensures sound { IsSoundTarget op next core.now result }
    ensures at { IsCore core.now → IsTargetAt result }
{
    way(op, next, core)
}

#[inline(always)]
#[tactic(auto, unfolding(crate::specs::Targets::target_of))]
fn way(op: Op, next: u16, core: &Core) -> Target
    ensures exact { result ≡ Targets.target_of op next core.now }
    ensures bytes { HasBytes op }
{
    match op {
        Op::JumpRelative(e8) | Op::JumpRelativeIf(_, e8) => Target::At(displaced(next, e8)),
        Op::Jump(address) | Op::JumpIf(_, address) => Target::At(address),
        Op::Call(address) | Op::CallIf(_, address) => Target::Call(address),
        Op::Restart(vector) => Target::Call(u16::from(vector)),
        Op::Return | Op::ReturnIf(_) | Op::ReturnFromInterrupt => Target::Return,
        Op::JumpHl => word_target(pair_halves(Pair::Hl, core)),
        _ => Target::At(next),
    }
}
