//! What instructions write, and what they leave of a core.

ghost use Rattle.std.specs.Prelude.{◌≡◌};
ghost use Rattle.gb_abs_effects.specs.Transfer as Transfer;
ghost use Rattle.gb_abs_effects.specs.declared.writes.AbsWrite.TheVariants.{Nothing};

use crate::reads::hl_span;
use gb_abs::AbsComputed;
use gb_abs::operations::set_register;
use gb_abs::span::Span;
use gb_domain::types::{Core, Halves, Val};
use gb_ops::op::Operand;

/// What an instruction writes.
#[derive(Clone, Copy, PartialEq, Eq)]
pub enum AbsWrite {
    Nothing,
    /// One byte at one of these addresses.
    Byte(Span, Val),
    /// The low byte at an address, and then the high byte behind it.
    Word(u16, Val, Val),
    /// A word on the stack.
    Push { high: Val, low: Val },
}

/// The effect of an instruction on a core: what is left of it, and what is written.
#[derive(Clone, Copy, PartialEq, Eq)]
pub struct AbsEffect {
    pub core: Core,
    pub write: AbsWrite,
}

/// The core as it is, and nothing is written.
pub fn quiet(core: &Core) -> AbsEffect
    ensures { result ≡ Transfer.quiet core.now }
{
    AbsEffect {
        core: *core,
        write: AbsWrite::Nothing,
    }
}

/// The value of an operand, with the byte that was read at HL given.
#[tactic(auto, unfolding(crate::specs::Transfer::operand_val))]
pub(crate) fn operand_val(operand: Operand, core: &Core, low: Val) -> Val
    ensures { result ≡ Transfer.operand_val operand core.now low }
{
    match operand {
        Operand::Register(which) => core.registers.get(which),
        Operand::AtHl => low,
    }
}

/// A word goes on the stack.
pub(crate) fn push(halves: Halves, effect: &mut AbsEffect)
    ensures { effect.new ≡ Transfer.pushes effect.old.core halves }
{
    let Halves { high, low } = halves;
    effect.write = AbsWrite::Push { high, low };
}

/// The operand gets a value: a register, or the byte at HL. Nothing was written before.
#[inline(never)]
#[tactic(auto, unfolding(crate::specs::Transfer::store_operand))]
pub(crate) fn store_operand(operand: Operand, val: Val, effect: &mut AbsEffect)
    requires { effect.old.write ≡ Nothing }
    ensures { effect.new ≡ Transfer.store_operand operand val effect.old.core }
{
    match operand {
        Operand::Register(which) => set_register(which, val, &mut effect.core),
        Operand::AtHl => effect.write = AbsWrite::Byte(hl_span(&effect.core), val),
    }
}

/// The operand and the flags become what was computed. Nothing was written before.
#[tactic(auto, unfolding(crate::specs::Transfer::update_operand))]
pub(crate) fn update_operand(operand: Operand, outcome: AbsComputed, effect: &mut AbsEffect)
    requires { effect.old.write ≡ Nothing }
    ensures { effect.new ≡ Transfer.update_operand operand outcome effect.old.core }
{
    effect.core.flags = outcome.flags;
    store_operand(operand, outcome.val, effect);
}

/// A and the flags become what was computed. Nothing was written before.
#[tactic(auto, unfolding(crate::specs::Transfer::update_a))]
pub(crate) fn update_a(outcome: AbsComputed, effect: &mut AbsEffect)
    requires { effect.old.write ≡ Nothing }
    ensures { effect.new ≡ Transfer.update_a outcome effect.old.core }
{
    effect.core.registers.a = outcome.val;
    effect.core.flags = outcome.flags;
}
