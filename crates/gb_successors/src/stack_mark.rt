//! The mark at which a procedure puts its stack aside, as instructions take SP's address.

ghost use Rattle.std.specs.Prelude.{◌≡◌, length};
ghost use Rattle.gb_successors.specs.StackMark as StackMark;

use crate::stacks::{Stack, is_located};
use gb_domain::types::{Abs, Core, Origin, Rules, Val};
use gb_ops::op::{Op, Pair};
use gb_ops::registers::Registers;
use gb_product::{AbsEffect, AbsWrite, own};

/// Whether, with so many bytes held, a signed number from SP is the address so many bytes below the base.
fn is_moved_to(e8: u8, held: usize, mark: u8) -> bool
    ensures { result ≡ StackMark.is_moved_to e8 held mark }
{
    let (mark, moved) = (usize::from(mark), usize::from(e8));
    if e8 < 128 {
        held == mark + moved
    } else {
        held < 256 && held + (256 - moved) == mark
    }
}

/// Whether, with so many bytes held, an instruction takes that address.
fn takes_mark(op: Op, registers: &Registers<Val>, held: usize, mark: u8) -> bool
    ensures { result ≡ StackMark.takes_mark op registers.now held mark }
{
    match op {
        Op::LoadHlSp(e8) => is_moved_to(e8, held, mark),
        Op::AddHl(Pair::Sp) => {
            held == usize::from(mark) && registers.h.hi == 0 && registers.l.hi == 0
        }
        Op::StoreSp(_) => held == usize::from(mark),
        _ => false,
    }
}

/// Whether SP stands where the items end, by the rules of version 4.
fn is_known(stack: Stack, state: &Abs) -> bool
    ensures { result ≡ StackMark.is_known stack state.now }
{
    matches!(stack.setting.rules, Rules::Extended) && stack.setting.is_whole && is_located(state)
}

/// Whether an instruction takes the address of the procedure's mark.
#[tactic(auto, unfolding(crate::specs::StackMark::marks))]
pub(crate) fn marks(stack: Stack, op: Op, state: &Abs, core: &Core) -> bool
    ensures { result ≡ StackMark.marks stack op state.now core.now }
{
    takes_mark(op, &core.registers, state.items().len(), stack.mark) && is_known(stack, state)
}

/// A word that is stored is the mark's address.
fn mark_write(is_marked: bool, write: &mut AbsWrite)
    ensures { write.new ≡ StackMark.marked_write write.old is_marked }
{
    if let AbsWrite::Word(_, low, high) = write {
        if is_marked {
            *low = own(Origin::MarkLow, *low);
            *high = own(Origin::MarkHigh, *high);
        }
    }
}

/// HL is that address, where nothing is stored.
fn mark_core(op: Op, is_marked: bool, core: &mut Core)
    ensures { core.new ≡ StackMark.marked_core op is_marked core.old }
{
    match op {
        Op::StoreSp(_) => {}
        _ => {
            if is_marked {
                core.registers.h = own(Origin::MarkHigh, core.registers.h);
                core.registers.l = own(Origin::MarkLow, core.registers.l);
            }
        }
    }
}

/// What an instruction does, where it takes the mark's address or doesn't.
#[inline(always)]
#[tactic(auto, unfolding(crate::specs::StackMark::marked))]
pub(crate) fn mark(is_marked: bool, op: Op, effect: &mut AbsEffect)
    ensures { effect.new ≡ StackMark.marked is_marked op effect.old }
{
    mark_core(op, is_marked, &mut effect.core);
    mark_write(is_marked, &mut effect.write);
}
