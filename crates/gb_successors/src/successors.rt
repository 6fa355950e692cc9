//! All successors of an instruction.

ghost use Rattle.std.specs.Prelude.{◌≡◌, ◌+◌, ◌%◌, false, Some, None};
ghost use Rattle.gb_domain.specs.declared.relations.Relations.{Relations};
ghost use Rattle.gb_domain.specs.declared.types.Core.{Core};
ghost use Rattle.gb_domain.specs.declared.types.Val.{Val};
ghost use Rattle.gb_product.specs.Sides.{taken_side, not_taken_side};
ghost use Rattle.gb_domain.specs.Areas.{meets};
ghost use Rattle.gb_successors.specs.Settled as Settled;
ghost use Rattle.gb_successors.specs.Settled.{told_successor, held_way};
ghost use Rattle.gb_successors.specs.Successors as Succession;
ghost use Rattle.gb_successors.specs.Sound.{AreSoundSuccessors};
ghost use Rattle.gb_product.specs.Reduced.{product_of};

use crate::stacks::Stack;
use crate::successor::{Successor, Told, staying_successor, taken_successor, untaken_successor};
use gb_abs_memory::{Rom, item_at};
use gb_domain::pairs::PairBounds;
use gb_domain::relations::Relations;
use gb_domain::types::{Abs, Cell, Core, Rules, Setting, Val};
use gb_ops::machine::Region;
use gb_ops::op::{Op, Row};
use gb_product::parts::{Branch, Product};
use gb_product::reduced::reduced;
use gb_product::sides::{memory_of, not_taken_side, taken_side};
use gb_product::{Program, States, Values, condition_of, may_enable, read_in, settle};

/// The possible successors of an instruction.
#[derive(Drop)]
pub struct Successors<'a> {
    pub taken: Option<Successor<'a>>,
    pub not_taken: Option<Successor<'a>>,
    /// The processor stays on HALT: interrupts were pending, and one that is enabled is requested.
    pub stays: Option<Successor<'a>>,
}

/// Whether the processor may stay on the instruction (halt).
#[tactic(auto, unfolding(crate::specs::Successors::may_stay))]
pub fn may_stay(op: Op, core: &Core) -> bool
    ensures { result ≡ Succession.may_stay op core.now }
{
    match op {
        Op::Halt => core.ime.pending && may_enable(&core.ie),
        _ => false,
    }
}

/// The possible successors of the instruction at an address, from the states that one stands for.
/// Where the HALT mark is clear and the instruction isn't STOP, executing it leads by one of them, if
/// nothing refuses that one's accesses; so do staying on HALT and the halt bug.
#[tactic(auto, using(crate::proofs::WayLaws::successors_of_sound))]
pub fn successors_of<'a>(
    stack: Stack,
    program: &Program<'_>,
    rom: &Rom<'_>,
    row: Row,
    address: u16,
    state: &'a Abs,
) -> Successors<'a>
    ensures exact { result ≡ Succession.successors_of stack program.now rom.now row address state.now }
    ensures sound { AreSoundSuccessors stack program.now rom.now row address state.now result }
{
    each_way(stack, program, rom, row, address, state)
}

/// What is known before the instruction, settled and reduced, where the pairs lay in these bounds as the procedure was entered; none
/// where nothing is meant.
#[tactic(auto, unfolding(crate::specs::Successors::product_before, gb_product::specs::Reduced::reduced))]
pub fn product_before(
    program: &Program<'_>,
    rules: Rules,
    entered: &PairBounds,
    state: &Abs,
) -> Option<Product>
    ensures { result ≡ Succession.product_before program.now rules entered.now state.now }
{
    let core = settle(state.core());
    match rules {
        Rules::Simple => Some(Product {
            core,
            relations: *state.relations(),
        }),
        Rules::Extended => {
            let relations = state.relations();
            let read = read_in(program, &States::of(state), &relations.pairs);
            reduced(rules, entered, &read, &core, relations)
        }
    }
}

/// Whether an instruction has a condition. Where it has none it is always taken, and nothing is cut.
#[tactic(auto, unfolding(gb_product::specs::Sides::taken_side, gb_product::specs::Sides::not_taken_side, crate::specs::Opened::sides_of))]
pub fn has_condition(op: Op) -> bool
    ensures taken { result ≡ false → (memory : Val) (core : Core) (r : Relations) → taken_side op memory core r ≡ Some (record { core = core; relations = r; cell = None }) }
    ensures not_taken { result ≡ false → (memory : Val) (core : Core) (r : Relations) → not_taken_side op memory core r ≡ None }
{
    condition_of(op).is_some()
}

/// The item at the address among the places, by the rules of version 4.
#[tactic(auto, unfolding(crate::specs::Opened::item_at))]
fn item_of(setting: Setting, state: &Abs, address: Option<u16>) -> Option<Val>
    ensures { result ≡ Succession.item_of setting state.now address }
{
    match address {
        Some(address) if setting.is_whole => item_at(setting, state.core(), state, address),
        _ => None,
    }
}

/// What is known of the byte at the address among the places.
pub fn memory_before(
    stack: &Stack,
    program: &Program<'_>,
    state: &Abs,
    core: &Core,
    relations: &Relations,
) -> Val
    ensures { result ≡ Succession.memory_before stack.now program.now state.now (product_of core.now relations.now) }
{
    let values = Values {
        registers: core.registers,
        pairs: relations.pairs,
    };
    let address = relations.byte.address;
    match item_of(stack.setting, state, address) {
        Some(item) => item,
        None => memory_of(program, &values, state.cells(), state.summary(), address),
    }
}

/// Of places in the stack those are left that are items still, by the rules of version 4.
fn hold<'a>(stack: &Stack, successor: &mut Successor<'a>)
    ensures { Some successor.new ≡ held_way stack.now.setting.rules stack.now (Some successor.old) }
{
    match stack.setting.rules {
        Rules::Simple => {}
        Rules::Extended => successor.hold(stack),
    }
}

/// A successor is reduced, and of the places in the stack those are left that are items still; whether something is meant by it.
#[inline(always)]
pub fn settle_way<'a>(stack: &Stack, successor: &mut Successor<'a>) -> bool
    ensures { held_way stack.now.setting.rules stack.now (Succession.reduced_successor stack.now.setting.rules stack.now.setting.entered successor.old) ≡ Succession.some_if result successor.new }
{
    if successor.reduce(stack.setting.rules, &stack.setting.entered) {
        hold(stack, successor);
        true
    } else {
        false
    }
}

/// A successor is reduced and put in the place of none, where something is meant by it.
fn put_reduced<'a>(stack: &Stack, successor: Successor<'a>, way: &mut Option<Successor<'a>>)
    requires { way.old ≡ None }
    ensures { way.new ≡ held_way stack.now.setting.rules stack.now (Succession.reduced_successor stack.now.setting.rules stack.now.setting.entered successor.entry) }
{
    let mut successor = successor;
    if settle_way(stack, &mut successor) {
        *way = Some(successor);
    }
}

/// Whether a side tells of the stack.
fn is_inside(region: Region, cell: &Cell) -> bool
    ensures { result ≡ meets region cell.now.address cell.now.address }
{
    cell.address <= region.last && region.first <= cell.address
}

/// What a side tells of a cell outside the stack region.
fn cell_outside(region: Region, cell: &Option<Cell>) -> Option<Cell>
    ensures { result ≡ Settled.cell_outside region cell.now }
{
    match cell {
        Some(cell) if !is_inside(region, cell) => Some(*cell),
        _ => None,
    }
}

/// What a side tells of an item. By the rules of versions 1 and 2 no item is known by its address.
fn told_by(stack: &Stack, cell: &Option<Cell>) -> Option<Told>
    ensures { result ≡ Settled.told_by stack.now.setting.rules stack.now cell.now }
{
    let cell = cell.as_ref()?;
    match stack.setting.rules {
        Rules::Extended if is_inside(stack.region, cell) => Some(Told {
            setting: stack.setting,
            region: stack.region,
            cell: *cell,
        }),
        _ => None,
    }
}

/// The successor where the instruction is taken, from a side of it.
#[inline(always)]
pub fn side_successor<'a>(
    stack: Stack,
    program: &Program<'_>,
    rom: &Rom<'_>,
    row: Row,
    next: u16,
    state: &'a Abs,
    side: &Branch,
) -> Successor<'a>
    ensures { result ≡ told_successor (Settled.told_by stack.setting.rules stack side.now.cell) state.now.core (Succession.taken_successor stack program.now rom.now row next state.now (Settled.branch_outside stack.region side.now)) }
{
    let (core, relations) = (&side.core, &side.relations);
    let cell = cell_outside(stack.region, &side.cell);
    let told = told_by(&stack, &side.cell);
    taken_successor(
        &stack, program, rom, &row, next, state, core, relations, &cell, told,
    )
}

/// The successor where the instruction isn't taken, from a side of it.
pub fn other_side_successor<'a>(
    stack: Stack,
    rom: &Rom<'_>,
    row: Row,
    next: u16,
    state: &'a Abs,
    side: &Branch,
) -> Successor<'a>
    ensures { result ≡ told_successor (Settled.told_by stack.setting.rules stack side.now.cell) state.now.core (Succession.untaken_successor stack row next state.now (Settled.branch_outside stack.region side.now)) }
{
    let told = told_by(&stack, &side.cell);
    let outside = Branch {
        cell: cell_outside(stack.region, &side.cell),
        ..*side
    };
    untaken_successor(stack, rom.kind(), row, next, state, &outside, told)
}

/// Puts the successor of the taken side, reduced, where none was.
#[tactic(auto, unfolding(crate::specs::Successors::settled_way))]
#[inline(never)]
fn put_taken_side<'a>(
    stack: Stack,
    program: &Program<'_>,
    rom: &Rom<'_>,
    row: Row,
    next: u16,
    state: &'a Abs,
    product: &Product,
    way: &mut Option<Successor<'a>>,
)
    requires { way.old ≡ None }
    ensures { way.new ≡ Succession.taken_from stack program.now rom.now row next state.now product.now }
{
    let (core, relations) = (&product.core, &product.relations);
    let memory = memory_before(&stack, program, state, core, relations);
    if let Some(side) = taken_side(row.op, memory, core, relations) {
        put_reduced(
            &stack,
            side_successor(stack, program, rom, row, next, state, &side),
            way,
        );
    }
}

/// Puts the successor of the taken side. Without a condition nothing is cut, so nothing is copied.
#[tactic(auto, unfolding(crate::specs::Successors::settled_way))]
fn put_taken_from<'a>(
    stack: Stack,
    program: &Program<'_>,
    rom: &Rom<'_>,
    row: Row,
    next: u16,
    state: &'a Abs,
    product: &Product,
    way: &mut Option<Successor<'a>>,
)
    requires { way.old ≡ None }
    ensures { way.new ≡ Succession.taken_from stack program.now rom.now row next state.now product.now }
{
    if has_condition(row.op) {
        put_taken_side(stack, program, rom, row, next, state, product, way);
    } else {
        let (core, relations) = (&product.core, &product.relations);
        let successor = taken_successor(
            &stack, program, rom, &row, next, state, core, relations, &None, None,
        );
        put_reduced(&stack, successor, way);
    }
}

#[tactic(auto, unfolding(crate::specs::Successors::settled_way))]
#[inline(never)]
fn put_untaken<'a>(
    stack: Stack,
    program: &Program<'_>,
    rom: &Rom<'_>,
    row: Row,
    next: u16,
    state: &'a Abs,
    product: &Product,
    way: &mut Option<Successor<'a>>,
)
    requires { way.old ≡ None }
    ensures { way.new ≡ Succession.not_taken_from stack program.now row next state.now product.now }
{
    let (core, relations) = (&product.core, &product.relations);
    let memory = memory_before(&stack, program, state, core, relations);
    if let Some(side) = not_taken_side(row.op, memory, core, relations) {
        put_reduced(
            &stack,
            other_side_successor(stack, rom, row, next, state, &side),
            way,
        );
    }
}

/// Where there is no condition, it isn't asked for.
fn put_untaken_from<'a>(
    stack: Stack,
    program: &Program<'_>,
    rom: &Rom<'_>,
    row: Row,
    next: u16,
    state: &'a Abs,
    product: &Product,
    way: &mut Option<Successor<'a>>,
)
    requires { way.old ≡ None }
    ensures { way.new ≡ Succession.not_taken_from stack program.now row next state.now product.now }
{
    if has_condition(row.op) {
        put_untaken(stack, program, rom, row, next, state, product, way);
    }
}

/// The address behind an instruction.
#[inline(always)]
fn behind(row: Row, address: u16) -> u16
    ensures { result ≡ (address + row.length) % 65536 }
{
    address.wrapping_add(u16::from(row.length))
}

/// The successor where the instruction is taken, in the place of none; what is known before it is given.
#[inline(always)]
fn put_taken<'a>(
    stack: Stack,
    program: &Program<'_>,
    rom: &Rom<'_>,
    row: Row,
    address: u16,
    state: &'a Abs,
    before: &Option<Product>,
    way: &mut Option<Successor<'a>>,
)
    requires before { before.now ≡ Succession.product_before program.now stack.setting.rules stack.setting.entered state.now }
    requires none { way.old ≡ None }
    ensures { way.new ≡ Succession.way_taken stack program.now rom.now row address state.now }
{
    if let Some(product) = before {
        put_taken_from(
            stack,
            program,
            rom,
            row,
            behind(row, address),
            state,
            product,
            way,
        );
    }
}

/// The successor where it isn't taken, in the place of none; what is known before it is given.
#[inline(always)]
fn put_not_taken<'a>(
    stack: Stack,
    program: &Program<'_>,
    rom: &Rom<'_>,
    row: Row,
    address: u16,
    state: &'a Abs,
    before: &Option<Product>,
    way: &mut Option<Successor<'a>>,
)
    requires before { before.now ≡ Succession.product_before program.now stack.setting.rules stack.setting.entered state.now }
    requires none { way.old ≡ None }
    ensures { way.new ≡ Succession.way_not_taken stack program.now row address state.now }
{
    if let Some(product) = before {
        put_untaken_from(
            stack,
            program,
            rom,
            row,
            behind(row, address),
            state,
            product,
            way,
        );
    }
}

/// Puts the successor that stays on HALT, if something is meant before it.
#[tactic(auto, unfolding(crate::specs::Successors::stays))]
fn put_stay<'a>(row: Row, address: u16, state: &'a Abs, way: &mut Option<Successor<'a>>)
    requires { way.old ≡ None }
    ensures { way.new ≡ Succession.stays row address state.now }
{
    if may_stay(row.op, state.core()) {
        *way = Some(staying_successor(address, state));
    }
}

/// The successor where the processor stays on it, in the place of none; what is known before it is given.
#[inline(always)]
fn put_staying<'a>(
    setting: &Setting,
    program: &Program<'_>,
    row: Row,
    address: u16,
    state: &'a Abs,
    before: &Option<Product>,
    way: &mut Option<Successor<'a>>,
)
    requires before { before.now ≡ Succession.product_before program.now setting.now.rules setting.now.entered state.now }
    requires none { way.old ≡ None }
    ensures { way.new ≡ Succession.way_staying program.now setting.now.rules setting.now.entered row address state.now }
{
    if let Some(_) = before {
        put_stay(row, address, state, way);
    }
}

#[tactic(auto, unfolding(crate::specs::Successors::successors_of))]
fn each_way<'a>(
    stack: Stack,
    program: &Program<'_>,
    rom: &Rom<'_>,
    row: Row,
    address: u16,
    state: &'a Abs,
) -> Successors<'a>
    ensures { result ≡ Succession.successors_of stack program.now rom.now row address state.now }
{
    let before = product_before(program, stack.setting.rules, &stack.setting.entered, state);
    let mut ways = Successors {
        taken: None,
        not_taken: None,
        stays: None,
    };
    put_taken(
        stack,
        program,
        rom,
        row,
        address,
        state,
        &before,
        &mut ways.taken,
    );
    put_not_taken(
        stack,
        program,
        rom,
        row,
        address,
        state,
        &before,
        &mut ways.not_taken,
    );
    put_staying(
        &stack.setting,
        program,
        row,
        address,
        state,
        &before,
        &mut ways.stays,
    );
    ways
}
