//! What a caller goes on with.

ghost use Rattle.std.specs.Prelude.{◌≡◌, ◌+◌, ◌≤◌, ◌<◌, ◌++◌, true, false, if◌then◌else◌, None, length, map};
ghost use Rattle.std.specs.List.{list_all};
ghost use Rattle.gb_domain.specs.declared.rules.Rules.TheVariants.{Extended};
ghost use Rattle.gb_domain.specs.Limits.{cell_room};
ghost use Rattle.gb_calls.specs.Resuming as Resuming;
ghost use Rattle.gb_calls.specs.Sound.{IsSoundResuming, ReducesSoundly};
ghost use Rattle.gb_calls.specs.TakenOver as TakenOver;
ghost use Rattle.gb_calls.specs.Told as Told;

use crate::cells::{cells_back, given_addresses, has_room, is_in_ranges};
use crate::told::{Caller, is_left, place_back, val_back};
use arrayvec::ArrayVec;
use gb_abs_memory::windows::low_ends;
use gb_domain::pairs::{Link, Other, PairBounds};
use gb_domain::places::{OneByte, StackBytes};
use gb_domain::relations::Relations;
use gb_domain::summary::Summary;
use gb_domain::types::{Abs, Cell, Core, Ctl, KeptBanks, Origin, Range, Rules, Setting, Val};
use gb_ops::machine::{Kind, Region};
use gb_ops::registers::Registers;
use gb_product::reduced::reduced_controller;
use gb_product::{
    GivenBack, Kept, KnownRam, Program, ReadKept, Values, held_relations, is_byte_kept, is_own,
    only_of_a, read_by, reduce, returned, stack_held, summary_returned,
};

/// The most items that a state holds by any rules.
const ITEMS: usize = 255;

/// What a caller goes on with.
#[derive(Drop)]
pub enum Resumed {
    /// No machine state is meant: the callee doesn't come back.
    Nothing,
    States(Abs),
    /// More items than a state holds.
    TooDeep,
}

/// What a caller goes on with, where its states stand elsewhere.
#[derive(Clone, Copy)]
pub enum Return {
    /// No machine state is meant: the callee doesn't come back.
    Nothing,
    /// Those states.
    States,
    /// More items than a state holds.
    TooDeep,
}

fn registers_back(caller: &Caller<'_>, exit: &Registers<Val>) -> Registers<Val>
    ensures { result ≡ Resuming.registers_back caller.now.program.now caller.now.is_whole caller.now.kept.now.items caller.now.state.now exit.now }
{
    Registers {
        a: place_back(caller, Origin::A, exit.a),
        b: place_back(caller, Origin::B, exit.b),
        c: place_back(caller, Origin::C, exit.c),
        d: place_back(caller, Origin::D, exit.d),
        e: place_back(caller, Origin::E, exit.e),
        h: place_back(caller, Origin::H, exit.h),
        l: place_back(caller, Origin::L, exit.l),
    }
}

/// What the caller has kept, where the callee has kept it too.
fn kept_back(caller: KeptBanks, exit: KeptBanks) -> KeptBanks
    ensures { result ≡ Resuming.kept_back caller exit }
{
    KeptBanks {
        bank: exit.bank && caller.bank,
        second: exit.second && caller.second,
        gate: exit.gate && caller.gate,
        mode: exit.mode && caller.mode,
        high_bank: exit.high_bank && caller.high_bank,
    }
}

/// Whether the callee has kept the whole bank, which MBC1 and MBC3 have in one register.
fn is_bank_kept(kind: Kind, kept: KeptBanks) -> bool
    ensures { result ≡ Resuming.is_bank_kept kind kept }
{
    match kind {
        Kind::Mbc1 | Kind::Mbc3 => kept.bank,
        Kind::Rom | Kind::Mbc5 => kept.bank && kept.high_bank,
    }
}

/// The bounds of a bank whose halves come from two.
fn joined_halves(high: &Ctl, low: &Ctl) -> (u16, u16)
    ensures { result ≡ Resuming.joined_halves high.now low.now }
{
    let (least, most) = low_ends(low);
    (
        high.bank_lo / 256 * 256 + u16::from(least),
        high.bank_hi / 256 * 256 + u16::from(most),
    )
}

/// The bank's bounds: what the callee has kept is the caller's, of MBC5 each half by itself.
#[tactic(auto, unfolding(crate::specs::Resuming::bank_back))]
fn bank_back(kind: Kind, caller: &Ctl, exit: &Ctl) -> (u16, u16)
    ensures { result ≡ Resuming.bank_back kind caller.now exit.now }
{
    let kept = exit.kept;
    if matches!(kind, Kind::Mbc5) {
        let high = if kept.high_bank { caller } else { exit };
        let low = if kept.bank { caller } else { exit };
        return joined_halves(high, low);
    }
    let bank = if is_bank_kept(kind, kept) {
        caller
    } else {
        exit
    };
    (bank.bank_lo, bank.bank_hi)
}

/// Each register of the controller that the callee has kept is the caller's, else its exit says what it is.
fn controller_back(kind: Kind, caller: &Ctl, exit: &Ctl) -> Ctl
    ensures { result ≡ Resuming.controller_back kind caller.now exit.now }
{
    let kept = exit.kept;
    let (bank_lo, bank_hi) = bank_back(kind, caller, exit);
    let second = if kept.second { caller } else { exit };
    Ctl {
        bank_lo,
        bank_hi,
        second_lo: second.second_lo,
        second_hi: second.second_hi,
        gate: if kept.gate { caller.gate } else { exit.gate },
        mode: if kept.mode { caller.mode } else { exit.mode },
        kept: kept_back(caller.kept, kept),
    }
}

/// The controller that states may speak of.
fn known_kind(program: &Program<'_>) -> Kind
    ensures { result ≡ program.now.kind }
{
    program.kind
}

/// IME and the bound are the exit's, the stack is the caller's; the rest is the caller's where it is given back.
fn core_back(caller: &Caller<'_>, exit: &Core) -> Core
    ensures { result ≡ Resuming.core_back caller.now.program.now caller.now.is_whole caller.now.kept.now.items caller.now.state.now exit.now }
{
    let called = caller.state.core();
    Core {
        ime: exit.ime,
        bound: exit.bound,
        stack_set: called.stack_set,
        ctl: controller_back(known_kind(caller.program), &called.ctl, &exit.ctl),
        flags: if exit.flags.is_own {
            called.flags
        } else {
            exit.flags
        },
        ie: place_back(caller, Origin::Ie, exit.ie),
        registers: registers_back(caller, &exit.registers),
    }
}

/// The state gets these items more. There must be room.
fn append_items(items: &[Val], state: &mut Abs)
    requires { length state.old.items + length items.now ≤ 255 }
    ensures { state.new ≡ record state.old { items = state.old.items ++ items.now } }
{
    for item in items {
        state.push_item(*item);
    }
}

/// The state gets these items of an exit more, as they are given back. There must be room.
fn append_vals_back(caller: &Caller<'_>, items: &[Val], state: &mut Abs)
    requires { length state.old.items + length items.now ≤ 255 }
    ensures { state.new ≡ record state.old { items = state.old.items ++ map (Told.val_back caller.now.program.now caller.now.is_whole caller.now.kept.now.items caller.now.state.now) items.now } }
{
    for item in items {
        state.push_item(val_back(caller, *item));
    }
}

// ---- by the rules of versions 1 and 2

/// What is said of the caller's A, where A and the flags are the caller's.
fn byte_back(caller: &Abs, exit: &Abs) -> OneByte
    ensures { result ≡ Resuming.byte_back caller.now exit.now }
{
    let core = exit.core();
    if is_own(Origin::A, core.registers.a) && core.flags.is_own {
        only_of_a(&caller.relations().byte)
    } else {
        OneByte::default()
    }
}

/// The state with which a caller goes on, in the place of another one: it holds what it held.
#[tactic(auto, unfolding(crate::specs::Resuming::resumed_alone))]
fn put_alone(ranges: &[Range], state: &Abs, exit: &Abs, resumed: &mut Abs)
    ensures { resumed.new ≡ Resuming.resumed_alone ranges.now state.now exit.now }
{
    let program = Program::unknown();
    let kept = ArrayVec::new();
    let caller = Caller {
        program: &program,
        is_whole: false,
        kept: &kept,
        state,
    };
    resumed.set_plain(core_back(&caller, exit.core()));
    resumed.set_relations(Relations {
        byte: byte_back(state, exit),
        ..Relations::default()
    });
    append_items(state.items(), resumed);
    resumed.set_cells(cells_back(Rules::Simple, &caller, ranges, exit.cells()));
}

// ---- by the rules of version 3

fn own_by_register(registers: &Registers<Val>) -> Registers<bool>
    ensures { result ≡ Resuming.own_by_register registers.now }
{
    Registers {
        a: is_own(Origin::A, registers.a),
        b: is_own(Origin::B, registers.b),
        c: is_own(Origin::C, registers.c),
        d: is_own(Origin::D, registers.d),
        e: is_own(Origin::E, registers.e),
        h: is_own(Origin::H, registers.h),
        l: is_own(Origin::L, registers.l),
    }
}

fn cell_of(other: Other) -> Option<u16>
    ensures { result ≡ Resuming.cell_of other }
{
    match other {
        Other::Cell(address) => Some(address),
        Other::Register(_) | Other::Pair(_) | Other::Nothing => None,
    }
}

/// Whether the byte of memory that a link reads, if it reads one, is given back as it was.
fn is_read_kept(ranges: &[Range], addresses: &[u16], link: &Option<Link>) -> bool
    ensures { result ≡ Resuming.is_read_kept ranges.now addresses.now link.now }
{
    match link {
        None => true,
        Some(link) => is_byte_kept(ranges, addresses, cell_of(link.other)),
    }
}

/// What a callee gives back as it was, and the bytes at these addresses, of what the caller knows together.
fn kept_by(ranges: &[Range], addresses: &[u16], known: &Relations, exit: &Core) -> Kept
    ensures { result ≡ Resuming.kept_by ranges.now addresses.now known.now exit.now }
{
    let pairs = &known.pairs;
    Kept {
        registers: own_by_register(&exit.registers),
        flags: exit.flags.is_own,
        address: is_byte_kept(ranges, addresses, known.byte.address),
        read: ReadKept {
            bc: is_read_kept(ranges, addresses, &pairs.bc.link),
            de: is_read_kept(ranges, addresses, &pairs.de.link),
            hl: is_read_kept(ranges, addresses, &pairs.hl.link),
        },
    }
}

/// What a callee with this exit gives back as it was, of what is said of the whole program.
fn given_by(exit: &Core) -> GivenBack
    ensures { result ≡ Resuming.given_by exit.now }
{
    GivenBack {
        registers: own_by_register(&exit.registers),
        banks: exit.ctl.kept,
    }
}

/// What is said of the whole program where the callee returns; the cells are those there.
#[tactic(auto, unfolding(crate::specs::Resuming::summary_back))]
fn said_back(
    caller: &Caller<'_>,
    ranges: &[Range],
    addresses: &[u16],
    exit: &Abs,
    cells: &[Cell],
) -> Summary
    requires addresses { addresses.now ≡ Resuming.given_addresses caller.now.kept.now.items exit.now.cells }
    requires cells { cells.now ≡ Resuming.cells_back (cell_room Extended) (Told.cell_back caller.now.program.now caller.now.is_whole caller.now.kept.now.items caller.now.state.now) ranges.now caller.now.state.now.cells exit.now.cells }
    ensures { result ≡ Resuming.summary_back caller.now.program.now caller.now.is_whole ranges.now caller.now.kept.now.items caller.now.state.now exit.now }
{
    let (program, state) = (caller.program, caller.state);
    let values = Values {
        registers: state.core().registers,
        pairs: state.relations().pairs,
    };
    let before = KnownRam {
        cells: state.cells(),
        summary: state.summary(),
    };
    let last = KnownRam {
        cells: exit.cells(),
        summary: exit.summary(),
    };
    let has_room = has_room(ranges, before.cells, last.cells);
    summary_returned(
        program,
        ranges,
        &given_by(exit.core()),
        addresses,
        &values,
        &before,
        &last,
        has_room,
        cells,
    )
}

/// The same, at once where nothing is said on either side.
#[tactic(auto, using(crate::proofs::SummaryBackLaws::silent_back))]
fn summary_back(
    caller: &Caller<'_>,
    ranges: &[Range],
    addresses: &[u16],
    exit: &Abs,
    cells: &[Cell],
) -> Summary
    requires addresses { addresses.now ≡ Resuming.given_addresses caller.now.kept.now.items exit.now.cells }
    requires cells { cells.now ≡ Resuming.cells_back (cell_room Extended) (Told.cell_back caller.now.program.now caller.now.is_whole caller.now.kept.now.items caller.now.state.now) ranges.now caller.now.state.now.cells exit.now.cells }
    ensures { result ≡ Resuming.summary_back caller.now.program.now caller.now.is_whole ranges.now caller.now.kept.now.items caller.now.state.now exit.now }
{
    if caller.state.summary().is_silent() && exit.summary().is_silent() {
        Summary::none()
    } else {
        said_back(caller, ranges, addresses, exit, cells)
    }
}

/// The state gets a caller's waiting items more, the callee having taken over so many, and those of its exit behind them.
/// There must be room for them.
#[tactic(auto, unfolding(crate::specs::TakenOver::given_back_items))]
fn append_given_back(caller: &Caller<'_>, count: u8, held: &[Val], exit: &[Val], state: &mut Abs)
    requires { length state.old.items + length (TakenOver.given_back_items count held.now exit.now) ≤ 255 }
    ensures { state.new ≡ record state.old { items = state.old.items ++ TakenOver.given_back_items count held.now (map (Told.val_back caller.now.program.now caller.now.is_whole caller.now.kept.now.items caller.now.state.now) exit.now) } }
{
    let waiting = held.len().saturating_sub(usize::from(count));
    append_items(&held[..waiting], state);
    append_vals_back(caller, exit, state);
}

/// Whether a caller's waiting items, the callee having taken over so many, and those of its exit are more than a state holds.
#[tactic(auto, using(crate::proofs::TakenOverLaws::given_back_fits, crate::proofs::TakenOverLaws::given_back_few))]
fn are_too_many(count: u8, held: &[Val], exit: &[Val]) -> bool
    requires { length held.now ≤ 255 }
    ensures many { result ≡ true → 255 < length (TakenOver.given_back_items count held.now exit.now) }
    ensures few { result ≡ false → length (TakenOver.given_back_items count held.now exit.now) ≤ 255 }
{
    let waiting = held.len().saturating_sub(usize::from(count));
    exit.len() > ITEMS - waiting
}

/// What a caller goes on with, in the place of other states: its waiting items and the exit's behind them, and what is known
/// together on either side, cut to what registers and pairs leave each other, and the banks to what their places leave.
#[tactic(auto, unfolding(crate::specs::Resuming::rejoined, crate::specs::Resuming::reduced_state, crate::specs::Resuming::with_banks_cut))]
fn put_rejoined(
    entered: &PairBounds,
    caller: &Caller<'_>,
    waiting: StackBytes,
    count: u8,
    ranges: &[Range],
    exit: &Abs,
    resumed: &mut Abs,
) -> Return
    ensures exact { Resuming.IsResumed (Resuming.resumed_to result resumed.new) (Resuming.reduced_state caller.now.program.now entered.now (Resuming.rejoined caller.now.program.now caller.now.is_whole waiting count ranges.now caller.now.kept.now.items caller.now.state.now exit.now)) }
    ensures reducing { ReducesSoundly caller.now.program.now entered.now (Resuming.rejoined caller.now.program.now caller.now.is_whole waiting count ranges.now caller.now.kept.now.items caller.now.state.now exit.now) }
{
    let state = caller.state;
    let given = given_addresses(caller.kept, exit.cells());
    let addresses = given.as_slice();
    let known = held_relations(waiting, state.relations());
    let kept = kept_by(ranges, addresses, &known, exit.core());
    let mut core = core_back(caller, exit.core());
    let mut relations = returned(&kept, &state.core().registers, &known, exit.relations());
    let cells = cells_back(Rules::Extended, caller, ranges, exit.cells());
    let summary = summary_back(caller, ranges, addresses, exit, cells.as_slice());
    let read = read_by(
        caller.program,
        &Values {
            registers: core.registers,
            pairs: relations.pairs,
        },
        cells.as_slice(),
        &summary,
        &relations.pairs,
    );
    if !reduce(entered, &read, &mut core.registers, &mut relations.pairs) {
        return Return::Nothing;
    }
    let values = Values {
        registers: core.registers,
        pairs: relations.pairs,
    };
    let cut = reduced_controller(
        caller.program,
        &values,
        cells.as_slice(),
        &summary,
        &core.ctl,
    );
    let Some(ctl) = cut else {
        return Return::Nothing;
    };
    if are_too_many(count, state.items(), exit.items()) {
        return Return::TooDeep;
    }
    resumed.set_plain(Core { ctl, ..core });
    resumed.set_relations(relations);
    append_given_back(caller, count, state.items(), exit.items(), resumed);
    resumed.set_summary(summary);
    resumed.set_cells(cells);
    Return::States
}

// ---- by the rules of version 4

fn are_registers_left(caller: &Caller<'_>, exit: &Registers<Val>) -> bool
    ensures { result ≡ Resuming.are_registers_left caller.now.program.now caller.now.kept.now.items caller.now.state.now exit.now }
{
    is_left(caller, exit.a)
        && is_left(caller, exit.b)
        && is_left(caller, exit.c)
        && is_left(caller, exit.d)
        && is_left(caller, exit.e)
        && is_left(caller, exit.h)
        && is_left(caller, exit.l)
}

fn are_items_left(caller: &Caller<'_>, items: &[Val]) -> bool
    ensures { result ≡ list_all (Told.is_left caller.now.program.now caller.now.kept.now.items caller.now.state.now) items.now }
{
    items.iter().all(|item| is_left(caller, *item))
}

/// Whether a cell isn't given back, or something is left of its value.
fn is_cell_left(caller: &Caller<'_>, ranges: &[Range], cell: &Cell) -> bool
    ensures { result ≡ Resuming.is_cell_left caller.now.program.now caller.now.kept.now.items ranges.now caller.now.state.now cell.now }
{
    !is_in_ranges(ranges, cell) || is_left(caller, cell.val)
}

fn are_cells_left(caller: &Caller<'_>, ranges: &[Range], cells: &[Cell]) -> bool
    ensures { result ≡ list_all (Resuming.is_cell_left caller.now.program.now caller.now.kept.now.items ranges.now caller.now.state.now) cells.now }
{
    cells.iter().all(|cell| is_cell_left(caller, ranges, cell))
}

/// Whether something is left of each of the exit's values that the caller gets.
#[inline(never)]
#[tactic(auto, unfolding(crate::specs::Resuming::are_all_left))]
fn are_all_left(caller: &Caller<'_>, ranges: &[Range], exit: &Abs) -> bool
    ensures { result ≡ Resuming.are_all_left caller.now.program.now caller.now.kept.now.items ranges.now caller.now.state.now exit.now }
{
    are_registers_left(caller, &exit.core().registers)
        && is_left(caller, exit.core().ie)
        && are_items_left(caller, exit.items())
        && are_cells_left(caller, ranges, exit.cells())
}

/// The same, which versions 1 to 3 don't ask for.
fn is_something(caller: &Caller<'_>, ranges: &[Range], exit: &Abs) -> bool
    ensures { result ≡ Resuming.is_something caller.now.program.now caller.now.is_whole caller.now.kept.now.items ranges.now caller.now.state.now exit.now }
{
    !caller.is_whole || are_all_left(caller, ranges, exit)
}

/// What a caller goes on with by the rules of versions 3 and 4, in the place of other states.
fn put_something(
    entered: &PairBounds,
    caller: &Caller<'_>,
    waiting: StackBytes,
    count: u8,
    ranges: &[Range],
    exit: &Abs,
    resumed: &mut Abs,
) -> Return
    ensures exact { Resuming.IsResumed (Resuming.resumed_to result resumed.new) (if Resuming.is_something caller.now.program.now caller.now.is_whole caller.now.kept.now.items ranges.now caller.now.state.now exit.now then Resuming.reduced_state caller.now.program.now entered.now (Resuming.rejoined caller.now.program.now caller.now.is_whole waiting count ranges.now caller.now.kept.now.items caller.now.state.now exit.now) else None) }
    ensures reducing { Resuming.is_something caller.now.program.now caller.now.is_whole caller.now.kept.now.items ranges.now caller.now.state.now exit.now ≡ true → ReducesSoundly caller.now.program.now entered.now (Resuming.rejoined caller.now.program.now caller.now.is_whole waiting count ranges.now caller.now.kept.now.items caller.now.state.now exit.now) }
{
    if is_something(caller, ranges, exit) {
        put_rejoined(entered, caller, waiting, count, ranges, exit, resumed)
    } else {
        Return::Nothing
    }
}

/// The stack with the items that wait for a callee that took so many over.
fn waiting_stack(setting: Setting, region: Region, count: u8, state: &Abs) -> StackBytes
    ensures { result ≡ Resuming.waiting_stack setting region count state.now }
{
    let held = state.items().len() as u8;
    stack_held(setting, region, held.saturating_sub(count))
}

/// Rejoins the caller's state with the callee's exit, and follows what the machine does.
#[tactic(auto, using(crate::proofs::ResumingLaws::rejoined_sound), unfolding(crate::specs::Resuming::resumed_by))]
fn rejoin(
    program: &Program<'_>,
    setting: Setting,
    region: Region,
    count: u8,
    ranges: &[Range],
    kept: &ArrayVec<u16, 16>,
    state: &Abs,
    exit: &Abs,
    resumed: &mut Abs,
) -> Return
    requires { setting.rules ≡ Extended }
    ensures exact { Resuming.IsResumed (Resuming.resumed_to result resumed.new) (Resuming.resumed_by Extended program.now setting region count ranges.now kept.now.items state.now exit.now) }
    ensures sound { IsSoundResuming program.now setting region count ranges.now kept.now.items state.now exit.now (Resuming.resumed_to result resumed.new) }
{
    let caller = Caller {
        program,
        is_whole: setting.is_whole,
        kept,
        state,
    };
    let waiting = waiting_stack(setting, region, count, state);
    put_something(
        &setting.entered,
        &caller,
        waiting,
        count,
        ranges,
        exit,
        resumed,
    )
}

// ---- by all rules

/// Does what `resume` does, in the place of other states; `Return` says what they are.
#[tactic(auto, using(crate::proofs::ResumingLaws::resumed_alone_sound), unfolding(crate::specs::Resuming::resumed_by))]
pub fn resume_in(
    program: &Program<'_>,
    setting: Setting,
    region: Region,
    count: u8,
    ranges: &[Range],
    kept: &ArrayVec<u16, 16>,
    state: &Abs,
    exit: &Abs,
    resumed: &mut Abs,
) -> Return
    ensures exact { Resuming.IsResumed (Resuming.resumed_to result resumed.new) (Resuming.resumed program.now setting region count ranges.now kept.now.items state.now exit.now) }
    ensures sound { IsSoundResuming program.now setting region count ranges.now kept.now.items state.now exit.now (Resuming.resumed_to result resumed.new) }
{
    match setting.rules {
        Rules::Simple => {
            put_alone(ranges, state, exit, resumed);
            Return::States
        }
        Rules::Extended => rejoin(
            program, setting, region, count, ranges, kept, state, exit, resumed,
        ),
    }
}

/// What a caller goes on with that was in these states, in a procedure of a program with this stack region, where its callee has these
/// ranges and kept addresses, began with so many items and left by this exit (abstract interpretation: calls; own). Where the rules are
/// of version 4, what the exit says is a copy is what the caller's states say of what it is a copy of, and an item that waits may still
/// be a place.
pub fn resume(
    program: &Program<'_>,
    setting: Setting,
    region: Region,
    count: u8,
    ranges: &[Range],
    kept: &ArrayVec<u16, 16>,
    state: &Abs,
    exit: &Abs,
) -> Resumed
    ensures exact { Resuming.IsResumed result (Resuming.resumed program.now setting region count ranges.now kept.now.items state.now exit.now) }
    ensures sound { IsSoundResuming program.now setting region count ranges.now kept.now.items state.now exit.now result }
{
    let mut resumed = Abs::new(*state.core());
    match resume_in(
        program,
        setting,
        region,
        count,
        ranges,
        kept,
        state,
        exit,
        &mut resumed,
    ) {
        Return::Nothing => Resumed::Nothing,
        Return::States => Resumed::States(resumed),
        Return::TooDeep => Resumed::TooDeep,
    }
}
