//! How the successors of an instruction come about.

ghost use Rattle.std.specs.Prelude.{◌≡◌, None};
ghost use Rattle.gb_domain.specs.declared.rules.Rules.TheVariants.{Simple, Extended};
ghost use Rattle.gb_product.specs.Below.gb_abs_effects.Transfer as Transfer;
ghost use Rattle.gb_product.specs.Below.gb_abs_effects.declared.reads.AbsRead.TheVariants as reads;
ghost use Rattle.gb_product.specs.Below.gb_abs_effects.declared.targets.Target.TheVariants.{At};
ghost use Rattle.gb_product.specs.Below.gb_abs_effects.declared.writes.AbsWrite.TheVariants.{Nothing};
ghost use Rattle.gb_successors.specs.declared.stacks.StackMove.TheVariants.{Stay};
ghost use Rattle.gb_successors.specs.Behind as Behind;
ghost use Rattle.gb_successors.specs.Behind.{state_behind, told_behind};
ghost use Rattle.gb_successors.specs.Settled as Settled;
ghost use Rattle.gb_successors.specs.Settled.{told_successor};
ghost use Rattle.gb_successors.specs.Successors as Succession;

use crate::loads::{TakenSide, read_word};
use crate::refined::{cut_read, read_around, refine, refined_target};
use crate::said::summary_behind;
use crate::stack_mark::{mark, marks};
use crate::stacks::{Stack, StackMove, around_of, held_of, move_core, stack_move};
pub use crate::way::{Moved, Successor, Told};
use gb_abs_memory::Rom;
use gb_abs_memory::store::{Area, area_of, starts_oam_transfer, store_in_core};
use gb_domain::pairs::Bounds;
use gb_domain::relations::Relations;
use gb_domain::types::{Abs, Cell, Core, ImeSet, Rules, Setting};
use gb_ops::machine::Kind;
use gb_ops::op::{Op, Row};
use gb_product::parts::{Branch, Product};
use gb_product::{
    AbsEffect, AbsRead, AbsWrite, Inputs, Program, Span, Target, end, known_bits, known_carry,
    pass, pointer_bounds, quiet, read_of, relations_after, sp_bounds, sp_halves, target_of,
    transfer_in,
};

/// Whether a write starts an OAM transfer.
#[tactic(auto, unfolding(crate::specs::Behind::starts))]
fn starts(write: AbsWrite) -> bool
    ensures { result ≡ Behind.starts write }
{
    match write {
        AbsWrite::Byte(span, _) => starts_oam_transfer(span),
        AbsWrite::Word(address, _, _) => {
            starts_oam_transfer(Span::one(address))
                || starts_oam_transfer(Span::one(address.wrapping_add(1)))
        }
        AbsWrite::Nothing | AbsWrite::Push { .. } => false,
    }
}

/// Whether the stack's move may change items.
fn moves_stack(stack_move: StackMove) -> bool
    ensures { result ≡ Behind.moves_stack stack_move }
{
    !matches!(stack_move, StackMove::Stay)
}

fn is_in_ram(area: Option<Area>) -> bool
    ensures { result ≡ Behind.is_in_ram area }
{
    matches!(area, Some(Area::Ram))
}

/// Whether a write may change a cell.
#[tactic(auto, unfolding(crate::specs::Behind::changes_cells))]
fn changes_cells(kind: Kind, write: AbsWrite) -> bool
    ensures { result ≡ Behind.changes_cells kind write }
{
    match write {
        AbsWrite::Byte(span, _) => is_in_ram(area_of(kind, span)),
        AbsWrite::Word(_, _, _) => true,
        AbsWrite::Nothing | AbsWrite::Push { .. } => false,
    }
}

/// What changes items or cells, if something does.
#[inline(always)]
#[tactic(auto, unfolding(crate::specs::Behind::move_of))]
fn move_of(
    stack: &Stack,
    kind: Kind,
    cell: &Option<Cell>,
    stack_move: StackMove,
    write: AbsWrite,
) -> Option<Moved>
    ensures { result ≡ Behind.move_of stack.now kind cell.now stack_move write }
{
    if cell.is_some() || moves_stack(stack_move) || changes_cells(kind, write) {
        Some(Moved {
            stack: *stack,
            kind,
            cell: *cell,
            stack_move,
        })
    } else {
        None
    }
}

/// The core behind a write.
#[tactic(auto, unfolding(crate::specs::Behind::written_core))]
fn write_core(is_whole: bool, kind: Kind, write: AbsWrite, core: &mut Core)
    ensures { core.new ≡ Behind.written_core is_whole kind write core.old }
{
    match write {
        AbsWrite::Byte(span, val) => store_in_core(is_whole, kind, span, &val, core),
        AbsWrite::Word(address, low, high) => {
            store_in_core(is_whole, kind, Span::one(address), &low, core);
            store_in_core(
                is_whole,
                kind,
                Span::one(address.wrapping_add(1)),
                &high,
                core,
            );
        }
        AbsWrite::Nothing | AbsWrite::Push { .. } => {}
    }
}

/// The core behind an instruction, of its effect.
#[inline(always)]
#[tactic(auto, unfolding(crate::specs::Behind::core_behind))]
fn end_core(
    is_whole: bool,
    kind: Kind,
    stack_move: StackMove,
    cycles: u8,
    write: AbsWrite,
    core: &mut Core,
)
    ensures { core.new ≡ Behind.core_behind is_whole kind stack_move cycles write core.old }
{
    move_core(stack_move, core);
    write_core(is_whole, kind, write, core);
    pass(starts(write), cycles, core);
}

/// Where main begins anew nothing is told of an item.
fn told_at_target(target: Target, told: Option<Told>) -> Option<Told>
    ensures { result ≡ Settled.told_at_target target told }
{
    match (target, told) {
        (_, None) => None,
        (Target::Main(_), Some(_)) => None,
        (_, Some(told)) => Some(told),
    }
}

/// The bounds of an address that an instruction takes from a pair.
pub fn pointer_in(stack: Stack, op: Op, product: &Product) -> Option<Bounds>
    ensures { result ≡ Succession.pointer_in stack op product.now }
{
    pointer_bounds(
        stack.setting.rules,
        op,
        &product.core.registers,
        &product.relations.pairs,
    )
}

/// The successor where the instruction is taken, by rules that are the stack's own: so that they are known where it is made. Its
/// effect is made where it is given, in the place of the core before it.
#[inline(always)]
fn successor_by<'a>(
    rules: Rules,
    taken: &TakenSide<'_, 'a>,
    effect: &mut AbsEffect,
) -> Successor<'a>
    requires own { taken.now.stack.now.setting.rules ≡ rules }
    requires before { effect.old ≡ Transfer.quiet taken.now.core.now }
    ensures { result ≡ told_successor taken.now.told taken.now.state.now.core (Succession.taken_successor taken.now.stack.now taken.now.program.now taken.now.rom.now taken.now.row.now taken.now.next taken.now.state.now (record { core = taken.now.core.now; relations = taken.now.relations.now; cell = taken.now.cell.now })) }
{
    let (stack, state) = (taken.stack, taken.state);
    let (core, relations) = (taken.core, taken.relations);
    let (op, next) = (taken.row.op, taken.next);
    let setting = Setting {
        rules,
        ..stack.setting
    };
    let pointer = pointer_bounds(rules, op, &core.registers, &relations.pairs);
    let sp = sp_bounds(setting, state);
    let around = around_of(Stack { setting, ..*stack }, state, core);
    let read = read_around(
        rules,
        around.aside,
        op,
        cut_read(pointer, read_of(op, core)),
    );
    let inputs = Inputs {
        is_whole: setting.is_whole,
        next,
        sp: sp_halves(setting, state),
        word: read_word(setting, op, taken, read),
    };
    transfer_in(op, &inputs, effect);
    let carry = known_carry(rules, op, sp, &core.registers, &relations.pairs);
    let bits = known_bits(rules, setting.is_whole, op, &core.registers);
    refine(pointer, bits, carry, effect);
    let is_marked = marks(Stack { setting, ..*stack }, op, state, core);
    mark(is_marked, op, effect);
    let stack_move = stack_move(
        Stack { setting, ..*stack },
        around,
        op,
        effect.write,
        pointer,
    );
    let behind = target_of(op, next, core);
    let target = refined_target(setting, op, &inputs, core, pointer, stack_move, behind);
    let kind = taken.rom.kind();
    let moved = move_of(stack, kind, taken.cell, stack_move, effect.write);
    let program = taken.program;
    let write = effect.write;
    let summary = summary_behind(
        rules, stack, program, op, state, core, relations, stack_move, write, moved,
    );
    let low = inputs.word.low;
    let relations = relations_after(
        rules,
        setting.is_whole,
        held_of(setting, stack.region, state),
        op,
        sp,
        &core.registers,
        low,
        relations,
    );
    end_core(
        setting.is_whole,
        kind,
        stack_move,
        taken.row.cycles,
        effect.write,
        &mut effect.core,
    );
    Successor {
        read,
        write: effect.write,
        target,
        next,
        core: effect.core,
        relations,
        moved,
        summary,
        told: told_at_target(target, taken.told),
        before: state,
    }
}

/// The successor where the instruction is taken, by the rules of versions 1 and 2.
#[inline(never)]
fn simple_successor<'a>(taken: &TakenSide<'_, 'a>) -> Successor<'a>
    requires { taken.now.stack.now.setting.rules ≡ Simple }
    ensures { result ≡ told_successor taken.now.told taken.now.state.now.core (Succession.taken_successor taken.now.stack.now taken.now.program.now taken.now.rom.now taken.now.row.now taken.now.next taken.now.state.now (record { core = taken.now.core.now; relations = taken.now.relations.now; cell = taken.now.cell.now })) }
{
    let mut effect = quiet(taken.core);
    successor_by(Rules::Simple, taken, &mut effect)
}

/// The successor where the instruction is taken, by the rules of version 3.
#[inline(never)]
fn extended_successor<'a>(taken: &TakenSide<'_, 'a>) -> Successor<'a>
    requires { taken.now.stack.now.setting.rules ≡ Extended }
    ensures { result ≡ told_successor taken.now.told taken.now.state.now.core (Succession.taken_successor taken.now.stack.now taken.now.program.now taken.now.rom.now taken.now.row.now taken.now.next taken.now.state.now (record { core = taken.now.core.now; relations = taken.now.relations.now; cell = taken.now.cell.now })) }
{
    let mut effect = quiet(taken.core);
    successor_by(Rules::Extended, taken, &mut effect)
}

/// The successor where the instruction is taken, from a side that is settled: by either rules, so that what only those of version
/// 3 ask for costs the others nothing. The address behind it is given.
#[inline(always)]
pub fn taken_successor<'a>(
    stack: &Stack,
    program: &Program<'_>,
    rom: &Rom<'_>,
    row: &Row,
    next: u16,
    state: &'a Abs,
    core: &Core,
    relations: &Relations,
    cell: &Option<Cell>,
    told: Option<Told>,
) -> Successor<'a>
    ensures { result ≡ told_successor told state.now.core (Succession.taken_successor stack.now program.now rom.now row.now next state.now (record { core = core.now; relations = relations.now; cell = cell.now })) }
{
    let taken = TakenSide {
        stack,
        program,
        rom,
        row,
        next,
        state,
        core,
        relations,
        cell,
        told,
    };
    match stack.setting.rules {
        Rules::Simple => simple_successor(&taken),
        Rules::Extended => extended_successor(&taken),
    }
}

/// What a condition's cell changes, if there is one.
fn cell_alone(stack: Stack, kind: Kind, cell: Option<Cell>) -> Option<Moved>
    ensures { result ≡ Behind.move_of stack kind cell Stay Nothing }
{
    move_of(&stack, kind, &cell, StackMove::Stay, AbsWrite::Nothing)
}

/// The successor where nothing is read, written or said, with this core and what is known together.
#[inline(always)]
fn idle_successor<'a>(
    address: u16,
    core: Core,
    relations: Relations,
    moved: Option<Moved>,
    told: Option<Told>,
    state: &'a Abs,
) -> Successor<'a>
    ensures { result ≡ record { read = reads.Nothing; write = Nothing; target = At address; next = address; state = told_behind told state.now.core (state_behind moved Nothing core relations None state.now) } }
{
    Successor {
        read: AbsRead::Nothing,
        write: AbsWrite::Nothing,
        target: Target::At(address),
        next: address,
        core,
        relations,
        moved,
        summary: None,
        told,
        before: state,
    }
}

/// The successor where the instruction isn't taken: nothing happens but that time passes.
#[tactic(auto, using(crate::proofs::MovedLaws::untaken_state), unfolding(crate::specs::Successors::untaken_successor, crate::specs::Behind::ended))]
pub fn untaken_successor<'a>(
    stack: Stack,
    kind: Kind,
    row: Row,
    next: u16,
    state: &'a Abs,
    side: &Branch,
    told: Option<Told>,
) -> Successor<'a>
    ensures { result ≡ told_successor told state.now.core (Succession.untaken_successor stack row next state.now side.now) }
{
    let core = end(false, row.cycles_not_taken, &side.core);
    let moved = cell_alone(stack, kind, side.cell);
    let told = told_at_target(Target::At(next), told);
    idle_successor(next, core, side.relations, moved, told, state)
}

/// The successor where the processor stays on HALT, and interrupts become on.
#[inline(never)]
#[tactic(auto, unfolding(crate::specs::Successors::staying_successor, crate::specs::Behind::ended))]
pub fn staying_successor(address: u16, state: &Abs) -> Successor<'_>
    ensures { result ≡ Succession.staying_successor address state.now }
{
    let woken = Core {
        ime: ImeSet {
            off: false,
            pending: false,
            on: true,
        },
        ..*state.core()
    };
    idle_successor(
        address,
        end(false, 1, &woken),
        *state.relations(),
        None,
        None,
        state,
    )
}
