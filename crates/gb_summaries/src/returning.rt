//! What a routine that returns leaves of what is said of the whole program.

ghost use Rattle.std.specs.Prelude.{◌≡◌, ◌≤◌, ◌++◌, length, take};
ghost use Rattle.std.specs.List.{filter, filter_map};
ghost use Rattle.gb_ram_bounds.specs.Returned.{lies_in_one, left_of_caller, staying};
ghost use Rattle.gb_summaries.specs.Known.{pointer_bounds};
ghost use Rattle.gb_summaries.specs.Returning as Returning;
ghost use Rattle.gb_summaries.specs.Returning.{IsSoundReturn};

use crate::known::pointer_bounds;
use arrayvec::ArrayVec;
use gb_domain::pairs::Bounds;
use gb_domain::program::Program;
use gb_domain::summary::{BankShadows, Fact, Fill, Shadows, Summary};
use gb_domain::types::{Cell, KeptBanks, Range};
use gb_ops::machine::Kind;
use gb_ops::registers::Registers;
use gb_ram_bounds::Pointers;
use gb_ram_bounds::returned::{caller_fill_left, is_exit_fill_left, is_in_ranges, returned_level};
use gb_relations::{BankWindow, Preserved, Values, shadows_returned_by};

/// The most fills that a state has.
const FILLS: usize = 8;

/// What a routine gives back as it was when it was called.
#[derive(Clone, Copy)]
pub struct GivenBack {
    pub registers: Registers<bool>,
    pub banks: KeptBanks,
}

/// What a state says of bytes in RAM: its cells, and what is said of the whole program.
#[derive(Clone, Copy)]
pub struct KnownRam<'a> {
    pub cells: &'a [Cell],
    pub summary: &'a Summary,
}

/// Whether a window's register is what it was. MBC5 has its bank's low eight bits in one window, and bit 8 in the other.
#[tactic(auto, unfolding(crate::specs::Returning::is_window_kept))]
fn is_window_kept(kind: Kind, window: BankWindow, kept: KeptBanks) -> bool
    ensures { result ≡ Returning.is_window_kept kind window kept }
{
    match (kind, window) {
        (Kind::Mbc5, BankWindow::Second) => kept.high_bank,
        (_, BankWindow::Second) => kept.second,
        (Kind::Rom, BankWindow::First) => kept.bank && kept.high_bank,
        (_, BankWindow::First) => kept.bank,
    }
}

/// Whether the routine gives back the byte at an address.
fn is_given(addresses: &[u16], address: u16) -> bool
    ensures { result ≡ Returning.is_given addresses.now address }
{
    addresses.iter().any(|given| *given == address)
}

/// Whether the byte at an address of the caller's, if there is one, is what it was.
pub fn is_byte_kept(ranges: &[Range], addresses: &[u16], address: Option<u16>) -> bool
    ensures { result ≡ Returning.is_byte_kept ranges.now addresses.now address }
{
    match address {
        None => true,
        Some(address) => !is_in_ranges(ranges, address) || is_given(addresses, address),
    }
}

#[tactic(auto, unfolding(crate::specs::Returning::shadows_returned))]
fn shadows_returned(
    kind: Kind,
    window: BankWindow,
    ranges: &[Range],
    given: &GivenBack,
    addresses: &[u16],
    caller: &Shadows,
    exit: &Shadows,
) -> Shadows
    ensures { result ≡ Returning.shadows_returned kind window ranges.now given.now addresses.now caller.now exit.now }
{
    let kept = Preserved {
        window: is_window_kept(kind, window, given.banks),
        registers: given.registers,
        address: is_byte_kept(ranges, addresses, caller.address),
    };
    shadows_returned_by(&kept, exit, caller)
}

/// Pointers of which all bytes are given back.
fn kept_pointers(registers: &Registers<bool>) -> Pointers<bool>
    ensures { result ≡ Returning.kept_pointers registers.now }
{
    Pointers {
        bc: registers.b && registers.c,
        de: registers.d && registers.e,
        hl: registers.h && registers.l,
        high_c: registers.c,
    }
}

/// The exit's fills that lie in the routine's ranges.
fn exit_fills(ranges: &[Range], fills: &[Fill]) -> ArrayVec<Fill, 8>
    requires { length fills.now ≤ 8 }
    ensures { result.items ≡ filter (lies_in_one ranges.now) fills.now }
{
    let mut left = ArrayVec::new();
    for fill in fills {
        if is_exit_fill_left(ranges, fill) {
            left.push(*fill);
        }
    }
    left
}

/// What is left of the caller's fills.
fn caller_fills(
    ranges: &[Range],
    kept: &Pointers<bool>,
    pointers: &Pointers<Bounds>,
    fills: &[Fill],
) -> ArrayVec<Fill, 8>
    requires { length fills.now ≤ 8 }
    ensures { result.items ≡ filter_map (left_of_caller ranges.now kept.now pointers.now) fills.now }
{
    let mut left = ArrayVec::new();
    for fill in fills {
        if let Some(fill) = caller_fill_left(ranges, kept, pointers, *fill) {
            left.push(fill);
        }
    }
    left
}

/// So many fills, from the first one on; all where there are fewer.
fn first_fills(fills: &[Fill], count: usize) -> &[Fill]
    ensures { result.now ≡ take count fills.now }
{
    if count <= fills.len() {
        fills.split_at(count).0
    } else {
        fills
    }
}

/// These fills and behind them others, as many as a state has.
#[tactic(auto, using(crate::proofs::ReturningLaws::few_first))]
fn append_fills(fills: &mut ArrayVec<Fill, 8>, others: &[Fill])
    requires { length fills.old.items ≤ 8 }
    ensures { fills.new.items ≡ take 8 (fills.old.items ++ others.now) }
{
    let room = FILLS - fills.len();
    for fill in first_fills(others, room) {
        fills.push(*fill);
    }
}

#[tactic(auto, unfolding(crate::specs::Returning::fills_returned))]
fn fills_returned(
    ranges: &[Range],
    given: &GivenBack,
    pointers: &Pointers<Bounds>,
    caller: &[Fill],
    exit: &[Fill],
) -> ArrayVec<Fill, 8>
    requires caller { length caller.now ≤ 8 }
    requires exit { length exit.now ≤ 8 }
    ensures { result.items ≡ Returning.fills_returned ranges.now given.now pointers.now caller.now exit.now }
{
    let kept = kept_pointers(&given.registers);
    let mut fills = exit_fills(ranges, exit);
    let others = caller_fills(ranges, &kept, pointers, caller);
    append_fills(&mut fills, others.as_slice());
    fills
}

/// How many facts hold and which fills do, of what the caller's state and the exit say, where there is room for all cells.
#[tactic(auto, using(crate::proofs::ReturningLaws::staying_few))]
fn level_and_fills(
    facts: &[Fact],
    ranges: &[Range],
    given: &GivenBack,
    values: &Values,
    caller: &KnownRam<'_>,
    exit: &KnownRam<'_>,
    cells: &[Cell],
) -> (u16, ArrayVec<Fill, 8>)
    ensures level { result.0 ≡ staying ranges.now exit.now.cells.now cells.now facts.now exit.now.summary.now.level caller.now.summary.now.level }
    ensures fills { result.1.items ≡ Returning.fills_returned ranges.now given.now (pointer_bounds values.now) caller.now.summary.now.fills exit.now.summary.now.fills }
{
    let in_exit = exit.summary.level();
    let in_caller = caller.summary.level();
    let level = returned_level(
        ranges,
        exit.cells,
        cells,
        facts,
        in_exit.into(),
        in_caller.into(),
    );
    let pointers = pointer_bounds(values);
    let fills = fills_returned(
        ranges,
        given,
        &pointers,
        caller.summary.fills(),
        exit.summary.fills(),
    );
    (level as u16, fills)
}

/// What is said where there is room for all cells: `level` facts hold, and these fills.
#[tactic(auto, unfolding(crate::specs::Returning::summary_returned))]
fn said_with(
    program: &Program<'_>,
    ranges: &[Range],
    given: &GivenBack,
    addresses: &[u16],
    values: &Values,
    caller: &KnownRam<'_>,
    exit: &KnownRam<'_>,
    has_room: bool,
    cells: &[Cell],
) -> Summary
    ensures { result ≡ Returning.summary_returned program.now ranges.now given.now addresses.now values.now caller.now.cells.now caller.now.summary.now exit.now.cells.now exit.now.summary.now has_room cells.now }
{
    let (level, fills) = if has_room {
        level_and_fills(program.facts, ranges, given, values, caller, exit, cells)
    } else {
        (0, ArrayVec::new())
    };
    let (before, last) = (caller.summary.shadows(), exit.summary.shadows());
    let shadows = BankShadows {
        first: shadows_returned(
            program.kind,
            BankWindow::First,
            ranges,
            given,
            addresses,
            &before.first,
            &last.first,
        ),
        second: shadows_returned(
            program.kind,
            BankWindow::Second,
            ranges,
            given,
            addresses,
            &before.second,
            &last.second,
        ),
    };
    Summary::of_parts(level, fills, shadows, None)
}

/// What is said of the whole program where a routine returns that may write in these ranges, and gives this back as it was, and the
/// bytes at these addresses: of what its caller's state said, whose values these are, and of what its exit says. The cells are those where it returns; `has_room` says
/// that a state holds all of them, else no fact holds for sure, and no fill.
#[tactic(auto, using(crate::proofs::ReturningLaws::summary_returned_sound))]
pub fn summary_returned(
    program: &Program<'_>,
    ranges: &[Range],
    given: &GivenBack,
    addresses: &[u16],
    values: &Values,
    caller: &KnownRam<'_>,
    exit: &KnownRam<'_>,
    has_room: bool,
    cells: &[Cell],
) -> Summary
    ensures exact { result ≡ Returning.summary_returned program.now ranges.now given.now addresses.now values.now caller.now.cells.now caller.now.summary.now exit.now.cells.now exit.now.summary.now has_room cells.now }
    ensures sound { IsSoundReturn program.now ranges.now given.now addresses.now values.now caller.now.cells.now caller.now.summary.now exit.now.cells.now exit.now.summary.now has_room cells.now result }
{
    said_with(
        program, ranges, given, addresses, values, caller, exit, has_room, cells,
    )
}
