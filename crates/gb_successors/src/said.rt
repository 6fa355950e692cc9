//! What the states behind an instruction say of the whole program.

ghost use Rattle.std.specs.Prelude.{◌≡◌, None};
ghost use Rattle.gb_domain.specs.declared.rules.Rules.TheVariants.{Extended};
ghost use Rattle.gb_successors.specs.Behind as Behind;
ghost use Rattle.gb_successors.specs.Behind.{summary_or};
ghost use Rattle.gb_successors.specs.Summaries as Summaries;

use crate::stacks::{Stack, StackMove, with_aside};
use crate::way::{Moved, move_state};
use arrayvec::ArrayVec;
use gb_domain::LowBits;
use gb_domain::interval::low_bits_of;
use gb_domain::low_bits::none;
use gb_domain::pairs::Bounds;
use gb_domain::relations::Relations;
use gb_domain::summary::Summary;
use gb_domain::types::{Abs, Cell, Core, Rules, Val};
use gb_domain::values::interval_of;
use gb_ops::machine::Kind;
use gb_ops::op::{Op, Pair};
use gb_ops::registers::Registers;
use gb_product::{
    AbsWrite, AddressSet, InstructionStore, Program, Values, places_outside, pointed_bits,
    sp_bounds, summary_after,
};

/// What an instruction stores, and where it may.
#[tactic(auto, unfolding(crate::specs::Summaries::stored_by))]
fn stored_by(op: Op, registers: &Registers<Val>, write: AbsWrite) -> InstructionStore
    ensures { result ≡ Summaries.stored_by op registers.now write }
{
    match write {
        AbsWrite::Byte(span, val) => {
            let addresses = AddressSet {
                first: span.first,
                last: span.last,
                low: pointed_bits(op.pointer(), registers),
            };
            InstructionStore::Byte(addresses, interval_of(val))
        }
        AbsWrite::Word(address, low, high) => {
            InstructionStore::Word(address, interval_of(low), interval_of(high))
        }
        AbsWrite::Nothing | AbsWrite::Push { .. } => InstructionStore::Nothing,
    }
}

/// Where SP is put aside behind the stack's move.
fn aside_behind(stack_move: StackMove, aside: Option<Bounds>) -> Option<Bounds>
    ensures { result ≡ Summaries.aside_behind stack_move aside }
{
    match stack_move {
        StackMove::Aside(bounds) => Some(bounds),
        StackMove::Set(_) | StackMove::Restart(_) => None,
        StackMove::Stay
        | StackMove::Push(_)
        | StackMove::Take(_)
        | StackMove::Append(_)
        | StackMove::Lost => aside,
    }
}

/// What is said behind it, with the cells that are there then.
#[tactic(auto, unfolding(crate::specs::Summaries::summary_by))]
fn summary_with(
    stack: &Stack,
    program: &Program<'_>,
    op: Op,
    state: &Abs,
    core: &Core,
    relations: &Relations,
    stack_move: StackMove,
    write: AbsWrite,
    cells: &[Cell],
) -> Summary
    ensures { result ≡ Summaries.summary_by Extended stack.now program.now op state.now (record { core = core.now; relations = relations.now }) stack_move write cells.now }
{
    let values = Values {
        registers: core.registers,
        pairs: relations.pairs,
    };
    let aside = state.summary().aside();
    let after = summary_after(
        program,
        stack.region,
        cells,
        op,
        sp_bounds(stack.setting, state),
        &values,
        &places_outside(stack.region, &relations.byte),
        stored_by(op, &core.registers, write),
        &with_aside(state.summary(), None),
    );
    with_aside(&after, aside_behind(stack_move, aside))
}

/// What is said behind it, of which it is said what it moves.
#[inline(never)]
fn summary_moved(
    stack: &Stack,
    program: &Program<'_>,
    op: Op,
    state: &Abs,
    core: &Core,
    relations: &Relations,
    stack_move: StackMove,
    write: AbsWrite,
    moved: Option<Moved>,
) -> Summary
    ensures { result ≡ Summaries.summary_by Extended stack.now program.now op state.now (record { core = core.now; relations = relations.now }) stack_move write (Behind.moved_by moved write state.now).cells }
{
    match moved {
        None => summary_with(
            stack,
            program,
            op,
            state,
            core,
            relations,
            stack_move,
            write,
            state.cells(),
        ),
        Some(moved) => {
            let mut after = state.copied();
            move_state(moved, write, &mut after);
            summary_with(
                stack,
                program,
                op,
                state,
                core,
                relations,
                stack_move,
                write,
                after.cells(),
            )
        }
    }
}

/// Whether a store tells nothing of the controller's registers.
fn tells_nothing(rules: Rules, kind: Kind) -> bool
    ensures { result ≡ Summaries.tells_nothing rules kind }
{
    match rules {
        Rules::Simple => true,
        Rules::Extended => matches!(kind, Kind::Rom),
    }
}

/// Whether SP is put aside.
fn puts_aside(stack_move: StackMove) -> bool
    ensures { result ≡ Summaries.puts_aside stack_move }
{
    matches!(stack_move, StackMove::Aside(_))
}

/// Whether nothing was said, and nothing will be.
#[inline(always)]
#[tactic(auto, unfolding(crate::specs::Summaries::stays_silent))]
fn stays_silent(
    rules: Rules,
    program: &Program<'_>,
    stack_move: StackMove,
    summary: &Summary,
) -> bool
    ensures { result ≡ Summaries.stays_silent rules program.now stack_move summary.now }
{
    tells_nothing(rules, program.kind) && !puts_aside(stack_move) && summary.is_silent()
}

/// Whether nothing is stored but on the stack.
fn stores_nothing(write: AbsWrite) -> bool
    ensures { result ≡ Summaries.stores_nothing write }
{
    matches!(write, AbsWrite::Nothing | AbsWrite::Push { .. })
}

/// Whether nothing was said but how many facts hold, and as many do behind it.
#[inline(always)]
#[tactic(auto, unfolding(crate::specs::Summaries::keeps_level))]
fn keeps_level(rules: Rules, stack_move: StackMove, write: AbsWrite, summary: &Summary) -> bool
    ensures { result ≡ Summaries.keeps_level rules stack_move write summary.now }
{
    match rules {
        Rules::Simple => false,
        Rules::Extended => {
            stores_nothing(write) && !puts_aside(stack_move) && summary.is_level_alone()
        }
    }
}

/// What is said behind an instruction that is taken, where it isn't what was said before.
#[inline(always)]
#[tactic(auto, using(crate::proofs::SilentLaws::silent_behind, crate::proofs::SilentLaws::level_behind), unfolding(crate::specs::Summaries::summary_by))]
pub(crate) fn summary_behind(
    rules: Rules,
    stack: &Stack,
    program: &Program<'_>,
    op: Op,
    state: &Abs,
    core: &Core,
    relations: &Relations,
    stack_move: StackMove,
    write: AbsWrite,
    moved: Option<Moved>,
) -> Option<Summary>
    ensures { summary_or result state.now.summary ≡ Summaries.summary_by rules stack.now program.now op state.now (record { core = core.now; relations = relations.now }) stack_move write (Behind.moved_by moved write state.now).cells }
{
    if stays_silent(rules, program, stack_move, state.summary())
        || keeps_level(rules, stack_move, write, state.summary())
    {
        return None;
    }
    match rules {
        Rules::Simple => Some(Summary::none()),
        Rules::Extended => Some(summary_moved(
            stack, program, op, state, core, relations, stack_move, write, moved,
        )),
    }
}
