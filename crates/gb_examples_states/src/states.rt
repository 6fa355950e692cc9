//! Cells, words and single values of abstract states.

use gb_abs::cells::{with_cell, without_cells};
use gb_abs::covering::{cell_at, covers_val};
use gb_abs::operations::{end, settle, with_value};
use gb_abs::span::Span;
use gb_abs::stack::{pop, push};
use gb_domain::types::{Abs, Cell, Core, Halves, ImeSet, Rules, Val};
use gb_ops::op::Register;
use gb_product::Program;
use gb_product::covering::covers;
use gb_samples::relations::compared;
use gb_samples::states::{ANY, copy_of, entered, from_to, own};

fn up_to(hi: u8) -> Val {
    from_to(0, hi)
}

fn cell(address: u16, hi: u8) -> Cell {
    Cell {
        address,
        val: up_to(hi),
    }
}

/// A state with cells at C000, C002, C004 and so on, as many as asked for, that hold 0 to 1 each.
fn with_cells_up_to(count: u16) -> Abs {
    let mut state = Abs::new(entered());
    for i in 0..count.min(40) {
        state = with_cell(Rules::Simple, &state, 0xC000 + 2 * i, up_to(1));
    }
    state
}

fn word(high: u8, low: u8) -> Halves {
    Halves {
        high: up_to(high),
        low: up_to(low),
    }
}

/// Whether cells are these: addresses, each with the most that it holds.
fn are_cells(cells: &[Cell], expected: &[(u16, u8)]) -> bool {
    if cells.len() != expected.len() {
        return false;
    }
    for (held, (address, hi)) in cells.iter().zip(expected) {
        if *held != cell(*address, *hi) {
            return false;
        }
    }
    true
}

const UNORDERED: [(u16, u8); 4] = [(0xC005, 5), (0xFFFE, 8), (0xC000, 1), (0xC003, 3)];

const ORDERED: &[(u16, u8)] = &[(0xC000, 1), (0xC003, 3), (0xC005, 5), (0xFFFE, 8)];

/// The cells behind the first, of which C003 has got another value.
const BEHIND: &[(u16, u8)] = &[(0xC003, 4), (0xC005, 5), (0xFFFE, 8)];

#[test]
fn a_cell_is_put_in_order(rt: HostRuntime) {
    let mut state = Abs::new(entered());
    for (address, hi) in UNORDERED {
        state = with_cell(Rules::Simple, &state, address, up_to(hi));
    }
    assert!(rt; are_cells(state.cells(), ORDERED));
    assert!(rt; cell_at(0xC003, state.cells()) == up_to(3));
    assert!(rt; cell_at(0xC004, state.cells()) == ANY);
    // The first and one between get other values; the origin of what was stored is kept.
    let val = own(Register::A);
    let state = with_cell(Rules::Simple, &state, 0xC000, val);
    let state = with_cell(Rules::Simple, &state, 0xC003, up_to(4));
    let first = Cell {
        address: 0xC000,
        val,
    };
    match state.cells().split_first() {
        Some((head, behind)) => assert!(rt; *head == first && are_cells(behind, BEHIND)),
        None => assert!(rt; false, "no cells"),
    }
    assert!(rt; *state.core() == entered());
}

#[test]
fn at_most_32_cells(rt: HostRuntime) {
    // The 32nd finds room, at either end too, and the 33rd doesn't: nothing is known there.
    for (held, count, hi) in [(31, 32, 9), (32, 32, 255)] {
        let state = with_cells_up_to(held);
        for address in [0xBFFF, 0xC001, 0xFF80] {
            let more = with_cell(Rules::Simple, &state, address, up_to(9));
            assert!(rt; more.cells().len() == count);
            assert!(rt; cell_at(address, more.cells()) == up_to(hi));
        }
    }
    // One that is held gets its value, the first and the last of 32 too.
    let full = with_cells_up_to(32);
    for address in [0xC000, 0xC01E, 0xC03E] {
        let set = with_cell(Rules::Simple, &full, address, up_to(9));
        assert!(rt; set.cells().len() == 32);
        assert!(rt; cell_at(address, set.cells()) == up_to(9));
    }
}

/// Addresses from and to which cells are dropped, and what is left of four: to the cells themselves, and between them.
const DROPS: [(u16, u16, &[(u16, u8)]); 7] = [
    (0xC002, 0xC004, &[(0xC000, 1), (0xC006, 1)]),
    (0xC001, 0xC005, &[(0xC000, 1), (0xC006, 1)]),
    (0xC000, 0xC002, &[(0xC004, 1), (0xC006, 1)]),
    (0xC006, 0xFFFF, &[(0xC000, 1), (0xC002, 1), (0xC004, 1)]),
    (0x0000, 0xFFFF, &[]),
    (0xC007, 0xFFFF, FOUR),
    (0xC001, 0xC001, FOUR),
];

const FOUR: &[(u16, u8)] = &[(0xC000, 1), (0xC002, 1), (0xC004, 1), (0xC006, 1)];

#[test]
fn cells_are_dropped(rt: HostRuntime) {
    let state = with_cells_up_to(4);
    for (first, last, left) in DROPS {
        let dropped = without_cells(&state, first, last);
        assert!(rt; are_cells(dropped.cells(), left), "{first:x} to {last:x}");
    }
}

/// Sixteen words, which come back, the youngest first.
#[test]
fn at_most_16_words(rt: HostRuntime) {
    let mut state = with_cell(Rules::Simple, &Abs::new(entered()), 0xC000, up_to(3));
    for i in 0..16 {
        let Some(more) = push(Rules::Simple, &state, word(i, 100)) else {
            panic!(rt; "no room for word {i}");
        };
        state = more;
    }
    assert!(rt; state.items().len() == 32);
    assert!(rt; push(Rules::Simple, &state, word(16, 100)).is_none());
    for i in 0..16 {
        let Some(popped) = pop(&state) else {
            panic!(rt; "no word {i}");
        };
        assert!(rt; popped.word == word(15 - i, 100));
        state = popped.state;
    }
    assert!(rt; pop(&state).is_none());
    assert!(rt; are_cells(state.cells(), &[(0xC000, 3)]));
    assert!(rt; *state.core() == entered());
}

/// A register takes one value: its origin stays, and all else, F's origin too.
#[test]
fn a_register_takes_one_value(rt: HostRuntime) {
    let core = entered();
    let after = with_value(Register::A, 5, &core);
    let mut expected = core;
    expected.registers.a = copy_of(Register::A, 5, 5);
    assert!(rt; after == expected);
}

/// The bound is 3: it falls by the M-cycles, to 0 at least, but a transfer that starts has 161 left.
#[test]
fn a_transfer_begins_as_an_instruction_ends(rt: HostRuntime) {
    let core = Core {
        bound: 3,
        ..entered()
    };
    for (starts, cycles, bound) in [(false, 2, 1), (false, 3, 0), (false, 6, 0), (true, 3, 161)] {
        let after = Core { bound, ..core };
        assert!(rt; end(starts, cycles, &core) == after, "{cycles} M-cycles");
    }
}

/// IME that is pending is on at the next instruction.
#[test]
fn pending_becomes_on(rt: HostRuntime) {
    let ime = ImeSet {
        off: true,
        pending: true,
        on: false,
    };
    let settled = settle(&Core { ime, ..entered() });
    let ime = ImeSet {
        off: true,
        pending: false,
        on: true,
    };
    assert!(rt; settled == Core { ime, ..entered() });
}

/// A narrower value is covered, a wider one and another origin aren't; what is covered needs each cell of the other.
#[test]
fn wider_states_cover_narrower_ones(rt: HostRuntime) {
    let own_a = own(Register::A);
    assert!(rt; covers_val(&copy_of(Register::A, 3, 4), &own_a));
    assert!(rt; covers_val(&own_a, &ANY));
    assert!(rt; !covers_val(&ANY, &own_a));
    assert!(rt; !covers_val(&own(Register::B), &own_a));
    let (few, more) = (with_cells_up_to(1), with_cells_up_to(2));
    assert!(rt; covers(&Program::unknown(), &more, &few));
    assert!(rt; !covers(&Program::unknown(), &few, &more));
    assert!(rt;
        covers(
            &Program::unknown(),
            &few,
            &with_cell(Rules::Simple, &few, 0xC000, up_to(2))
        )
    );
}

/// The bytes from a least one to a greatest one that have as many of its low bits.
fn each_of(lo: u8, hi: u8, low_bits: u8) -> Val {
    Val {
        low_bits,
        ..from_to(lo, hi)
    }
}

/// What another one says of low bits a value must say too; a single value says all of them.
#[test]
fn low_bits_are_asked_for(rt: HostRuntime) {
    let fours = each_of(0, 12, 2);
    assert!(rt; covers_val(&fours, &from_to(0, 12)));
    assert!(rt; covers_val(&fours, &each_of(0, 14, 1)));
    assert!(rt; covers_val(&from_to(8, 8), &fours));
    assert!(rt; !covers_val(&from_to(6, 6), &fours));
    assert!(rt; !covers_val(&from_to(0, 12), &fours));
    assert!(rt; !covers_val(&each_of(0, 12, 1), &fours));
    assert!(rt; !covers_val(&each_of(1, 9, 2), &fours));
}

fn with_test(test: Option<u8>) -> Abs {
    let mut state = Abs::new(entered());
    state.set_relations(compared(test));
    state
}

/// A state with a test stands for those with the same test alone, one without for any.
#[test]
fn a_test_is_asked_for(rt: HostRuntime) {
    let (without, seven) = (with_test(None), with_test(Some(7)));
    assert!(rt;
        covers(&Program::unknown(), &seven, &seven) && covers(&Program::unknown(), &seven, &without)
    );
    assert!(rt;
        !covers(&Program::unknown(), &without, &seven)
            && !covers(&Program::unknown(), &with_test(Some(8)), &seven)
    );
}

#[test]
fn spans_are_known_of_pairs(rt: HostRuntime) {
    let span = Span::of_pair(&from_to(0xC0, 0xC1), &from_to(0x10, 0x20));
    assert!(rt; span.first == 0xC010 && span.last == 0xC120);
    assert!(rt; !span.is_one() && Span::one(0xC010).is_one());
    assert!(rt; span.is_inside(0xC000, 0xC120) && !span.is_inside(0xC000, 0xC11F));
    assert!(rt; span.may_meet(0xC120, 0xC130) && !span.may_meet(0xC121, 0xC130));
}
