//! What a procedure begins with.

ghost use Rattle.std.specs.Prelude.{◌≡◌, ◌≤◌, ◌+◌, ◌++◌, length, map};
ghost use Rattle.gb_domain.specs.Limits.{cell_room};
ghost use Rattle.gb_domain.specs.Summaries.{no_summary};
ghost use Rattle.gb_product.specs.Below.gb_abs.Cells.{with_cell};
ghost use Rattle.gb_product.specs.Below.gb_abs.Origins as Origins;
ghost use Rattle.gb_calls.specs.Calls as Calls;
ghost use Rattle.gb_calls.specs.Sound.{IsSoundEntering};
ghost use Rattle.gb_calls.specs.TakenOver as TakenOver;

use crate::told::byte_there;
use arrayvec::ArrayVec;
use gb_domain::types::{Abs, Cell, Core, Ctl, Flg, KeptBanks, Origin, Rules, Val};
use gb_ops::machine::Region;
use gb_ops::registers::Registers;
use gb_product::{Program, cell_without_origin, own, put_cell, relations_outside, without_origin};

/// Each register is a copy of what it held at entry.
fn own_registers(registers: &Registers<Val>) -> Registers<Val>
    ensures { result ≡ Calls.own_registers registers.now }
{
    Registers {
        a: own(Origin::A, registers.a),
        b: own(Origin::B, registers.b),
        c: own(Origin::C, registers.c),
        d: own(Origin::D, registers.d),
        e: own(Origin::E, registers.e),
        h: own(Origin::H, registers.h),
        l: own(Origin::L, registers.l),
    }
}

/// Each register, the flags and IE are copies of what they held at entry, and the controller is kept.
fn entered_core(core: &Core) -> Core
    ensures { result ≡ Calls.entered_core core.now }
{
    Core {
        registers: own_registers(&core.registers),
        flags: Flg {
            is_own: true,
            ..core.flags
        },
        ie: own(Origin::Ie, core.ie),
        ctl: Ctl {
            kept: KeptBanks::all_or_none(true),
            ..core.ctl
        },
        ..*core
    }
}

/// The state gets these items more, no copies but for the last two, which are the return word's bytes. There must be room.
fn append_returning(state: &mut Abs, items: &[Val])
    requires { length state.old.items + length items.now ≤ 255 }
    ensures { state.new ≡ record state.old { items = state.old.items ++ TakenOver.returning items.now } }
{
    match items {
        [] => {}
        [low] => state.push_item(own(Origin::ReturnLow, *low)),
        [high, low] => {
            state.push_item(own(Origin::ReturnHigh, *high));
            state.push_item(own(Origin::ReturnLow, *low));
        }
        [item, rest @ ..] => {
            state.push_item(without_origin(*item));
            append_returning(state, rest);
        }
    }
}

/// The state gets a caller's newest items more, as a callee takes them over that has so many. There must be room.
#[tactic(auto, unfolding(crate::specs::TakenOver::taken_over))]
fn append_taken_over(count: u8, items: &[Val], state: &mut Abs)
    requires { length state.old.items + length items.now ≤ 255 }
    ensures { state.new ≡ record state.old { items = state.old.items ++ TakenOver.taken_over count items.now } }
{
    let waiting = items.len().saturating_sub(usize::from(count));
    append_returning(state, &items[waiting..]);
}

/// The state gets the items more with which a procedure begins whose entry node has so many. There must be room.
fn append_entered(rules: Rules, count: u8, items: &[Val], state: &mut Abs)
    requires { length state.old.items + length items.now ≤ 255 }
    ensures { state.new ≡ record state.old { items = state.old.items ++ Calls.items_entered rules count items.now } }
{
    match rules {
        Rules::Simple => {}
        Rules::Extended => append_taken_over(count, items, state),
    }
}

/// The state gets these cells more, no copies. There must be room.
fn append_cells(cells: &[Cell], state: &mut Abs)
    requires { length state.old.cells + length cells.now ≤ 64 }
    ensures { state.new ≡ record state.old { cells = state.old.cells ++ map Origins.cell_without_origin cells.now } }
{
    for cell in cells {
        state.push_cell(cell_without_origin(*cell));
    }
}

/// The state gets a cell for the kept address with a number, whose byte another state knows: a copy of what it was at entry.
fn put_kept_cell(
    program: &Program<'_>,
    rules: Rules,
    state: &Abs,
    number: u8,
    address: u16,
    entered: &mut Abs,
)
    ensures { entered.new ≡ record entered.old { cells = with_cell (cell_room rules) (Calls.kept_cell program.now state.now number address) entered.old.cells } }
{
    let val = own(Origin::Kept(number), byte_there(program, state, address));
    put_cell(rules, address, val, entered);
}

/// The state gets a cell for each kept address, as far as there is room.
fn put_kept(
    program: &Program<'_>,
    rules: Rules,
    state: &Abs,
    kept: &ArrayVec<u16, 16>,
    entered: &mut Abs,
)
    ensures { entered.new ≡ record entered.old { cells = Calls.with_kept program.now rules state.now 0 kept.now.items entered.old.cells } }
{
    for (number, address) in kept.as_slice().iter().enumerate() {
        put_kept_cell(program, rules, state, number as u8, *address, entered);
    }
}

/// The state says of the whole program what another one does: by the rules of versions 1 and 2 that is nothing, as it does before.
fn put_summary(rules: Rules, state: &Abs, entered: &mut Abs)
    requires { entered.old.summary ≡ no_summary }
    ensures { entered.new ≡ record entered.old { summary = Calls.summary_entered rules state.now.summary } }
{
    match rules {
        Rules::Simple => {}
        Rules::Extended => entered.set_summary(state.summary().copied()),
    }
}

/// The state with which a procedure begins, in the place of another one.
#[tactic(auto, unfolding(crate::specs::Calls::entered_by))]
fn put_entered(
    program: &Program<'_>,
    region: Region,
    rules: Rules,
    count: u8,
    kept: &ArrayVec<u16, 16>,
    state: &Abs,
    entered: &mut Abs,
)
    ensures { entered.new ≡ Calls.entered_by program.now region rules count kept.now.items state.now }
{
    entered.set_plain(entered_core(state.core()));
    entered.set_relations(relations_outside(region, state.relations()));
    append_entered(rules, count, state.items(), entered);
    append_cells(state.cells(), entered);
    put_kept(program, rules, state, kept, entered);
    put_summary(rules, state, entered);
}

/// Does what `enter` does, in the place of other states.
#[tactic(auto, using(crate::proofs::EnteringLaws::enter_sound))]
pub fn enter_in(
    program: &Program<'_>,
    region: Region,
    rules: Rules,
    count: u8,
    kept: &ArrayVec<u16, 16>,
    state: &Abs,
    entered: &mut Abs,
)
    ensures exact { entered.new ≡ Calls.entered_by program.now region rules count kept.now.items state.now }
    ensures sound { IsSoundEntering program.now region rules count kept.now.items state.now entered.new }
{
    put_entered(program, region, rules, count, kept, state, entered);
}

/// What a procedure begins with that is called in these states of a program, whose entry node has so many items, and which names these
/// addresses to be kept (abstract interpretation: calls; own). What it holds is its own. By the rules of versions 1 and 2 no byte is
/// pushed, the return word stands at its base; by those of version 3 it takes over its caller's newest items, the return word the last
/// two of them. No item of the stack region is a place then.
pub fn enter(
    program: &Program<'_>,
    region: Region,
    rules: Rules,
    count: u8,
    kept: &ArrayVec<u16, 16>,
    state: &Abs,
) -> Abs
    ensures exact { result ≡ Calls.entered_by program.now region rules count kept.now.items state.now }
    ensures sound { IsSoundEntering program.now region rules count kept.now.items state.now result }
{
    let mut entered = Abs::new(*state.core());
    enter_in(program, region, rules, count, kept, state, &mut entered);
    entered
}
