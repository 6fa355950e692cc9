//! Bytes of the stack, where they stand, and cells, by the rules of version 3.

use gb_abs::Span;
use gb_abs::bytes::{append_bytes, resize, take_bytes};
use gb_abs::cells::{widened_cells, with_cell};
use gb_abs::covering::cell_at;
use gb_abs::located::{item_at, sp_bounds, sp_halves};
use gb_abs::stack::{pop, push};
use gb_abs_effects::transfer::{Inputs, transfer_in};
use gb_abs_effects::writes::{AbsWrite, quiet};
use gb_domain::low_bits::{low_bits, none};
use gb_domain::pairs::ANY_PAIRS;
use gb_domain::types::{Abs, Core, Halves, Rules, Setting, Val};
use gb_ops::op::{Op, Register};
use gb_samples::states::{ANY, copy_of, entered, from_to};
use gb_vals::vals::single;

/// What is done to a stack, its bytes known by the most that they are.
#[derive(Clone, Copy)]
enum Done {
    /// A word, its high and its low byte.
    Pushes(u8, u8),
    Pops(u8, u8),
    /// Bytes of any value.
    Appends(u8),
    Takes(u8),
    /// SP is set so that as many are held.
    Sets(usize),
}

fn up_to(hi: u8) -> Val {
    from_to(0, hi)
}

fn word(high: u8, low: u8) -> Halves {
    Halves {
        high: up_to(high),
        low: up_to(low),
    }
}

/// The state behind it, if it can be done.
fn behind(done: Done, state: &Abs) -> Option<Abs> {
    match done {
        Done::Pushes(high, low) => push(Rules::Extended, state, word(high, low)),
        Done::Pops(high, low) => {
            let popped = pop(state)?;
            if popped.word == word(high, low) {
                Some(popped.state)
            } else {
                None
            }
        }
        Done::Appends(count) => append_bytes(Rules::Extended, state, count),
        Done::Takes(count) => take_bytes(state, count),
        Done::Sets(count) => resize(Rules::Extended, state, count),
    }
}

fn are_items(state: &Abs, items: &[u8]) -> bool {
    if state.items().len() != items.len() {
        return false;
    }
    for (held, hi) in state.items().iter().zip(items) {
        if *held != up_to(*hi) {
            return false;
        }
    }
    true
}

/// What is done one after the other, and the bytes that are left, the oldest first.
const STACKED: &[(Done, &[u8])] = &[
    (Done::Pushes(1, 2), &[1, 2]),
    (Done::Appends(1), &[1, 2, 255]),
    (Done::Pushes(3, 4), &[1, 2, 255, 3, 4]),
    (Done::Takes(1), &[1, 2, 255, 3]),
    (Done::Pops(255, 3), &[1, 2]),
    (Done::Appends(0), &[1, 2]),
    (Done::Takes(1), &[1]),
    (Done::Appends(2), &[1, 255, 255]),
    (Done::Sets(2), &[1, 255]),
    (Done::Sets(4), &[1, 255, 255, 255]),
    (Done::Takes(4), &[]),
    (Done::Sets(0), &[]),
];

/// Words and single bytes share the stack.
#[test]
fn the_stack_is_of_bytes(rt: HostRuntime) {
    let mut state = Abs::new(entered());
    for (i, (done, left)) in STACKED.iter().enumerate() {
        let Some(after) = behind(*done, &state) else {
            panic!(rt; "step {i} can't be done");
        };
        state = after;
        assert!(rt; are_items(&state, left), "step {i}");
    }
}

/// How many bytes are held, what is done, and how many are held then, if it can be done.
const FILLED: &[(u8, Done, Option<usize>)] = &[
    (253, Done::Pushes(1, 2), Some(255)),
    (254, Done::Pushes(1, 2), None),
    (250, Done::Appends(5), Some(255)),
    (251, Done::Appends(5), None),
    (255, Done::Appends(0), Some(255)),
    (255, Done::Takes(255), Some(0)),
    (3, Done::Sets(255), Some(255)),
    (3, Done::Sets(256), None),
    (4, Done::Takes(5), None),
    (2, Done::Pops(255, 255), Some(0)),
    (1, Done::Pops(255, 255), None),
];

/// A state with so many bytes of the stack, of any value.
fn filled(count: u8) -> Option<Abs> {
    append_bytes(Rules::Extended, &Abs::new(entered()), count)
}

fn is_filled(held: u8, done: Done, left: Option<usize>) -> bool {
    let Some(state) = filled(held) else {
        return false;
    };
    behind(done, &state).map(|after| after.items().len()) == left
}

#[test]
fn at_most_255_bytes(rt: HostRuntime) {
    for (i, (held, done, left)) in FILLED.iter().enumerate() {
        assert!(rt; is_filled(*held, *done, *left), "row {i}");
    }
}

/// Where a state with the bytes 1, 2 and 3 stands: its rules, its base, and whether its stack is set; then an address with what
/// stands there, if that is known, and SP, if it is.
type Place = (Rules, u16, bool, u16, Option<u8>, Option<u16>);

const PLACES: &[Place] = &[
    (Rules::Extended, 0xDFF0, true, 0xDFEF, Some(1), Some(0xDFED)),
    (Rules::Extended, 0xDFF0, true, 0xDFEE, Some(2), Some(0xDFED)),
    (Rules::Extended, 0xDFF0, true, 0xDFED, Some(3), Some(0xDFED)),
    // Below SP, and above the base.
    (Rules::Extended, 0xDFF0, true, 0xDFEC, None, Some(0xDFED)),
    (Rules::Extended, 0xDFF0, true, 0xDFF0, None, Some(0xDFED)),
    (Rules::Extended, 0xC001, true, 0xC000, Some(1), Some(0xBFFE)),
    // No base, no stack, and other rules.
    (Rules::Extended, 0x0000, true, 0xDFEF, None, None),
    (Rules::Extended, 0xDFF0, false, 0xDFEF, None, None),
    (Rules::Simple, 0xDFF0, true, 0xDFEF, None, None),
];

/// A state with these bytes.
fn stacked(stack_set: bool) -> Option<Abs> {
    let core = Core {
        stack_set,
        ..entered()
    };
    let state = push(Rules::Extended, &Abs::new(core), word(1, 2))?;
    take_bytes(&push(Rules::Extended, &state, word(3, 4))?, 1)
}

/// Whether SP is this word, or any where there is none.
fn is_sp(setting: Setting, state: &Abs, sp: Option<u16>) -> bool {
    let (halves, bounds) = (sp_halves(setting, state), sp_bounds(setting, state));
    match sp {
        None => {
            halves.high == ANY && halves.low == ANY && bounds.first == 0 && bounds.last == 0xFFFF
        }
        Some(sp) => {
            let [high, low] = sp.to_be_bytes();
            halves.high == single(high)
                && halves.low == single(low)
                && bounds.first == sp
                && bounds.last == sp
        }
    }
}

fn is_placed(place: &Place) -> bool {
    let (rules, base, is_set, address, hi, sp) = *place;
    let setting = Setting {
        rules,
        is_whole: false,
        is_main: false,
        base,
        entered: ANY_PAIRS,
    };
    let Some(state) = stacked(is_set) else {
        return false;
    };
    item_at(setting, state.core(), &state, address) == hi.map(up_to) && is_sp(setting, &state, sp)
}

#[test]
fn bytes_stand_below_their_base(rt: HostRuntime) {
    for (i, place) in PLACES.iter().enumerate() {
        assert!(rt; is_placed(place), "row {i}");
    }
}

/// SP is stored with its low byte first.
#[test]
fn a_known_sp_is_stored(rt: HostRuntime) {
    let sp = Halves {
        high: single(0xDF),
        low: single(0xED),
    };
    let inputs = Inputs {
        is_whole: false,
        next: 0x1234,
        sp,
        word: Halves {
            high: ANY,
            low: ANY,
        },
    };
    let mut stored = quiet(&entered());
    transfer_in(Op::StoreSp(0xC000), &inputs, &mut stored);
    let write = AbsWrite::Word(0xC000, single(0xED), single(0xDF));
    assert!(rt; stored.core == entered() && stored.write == write);
}

/// A cell's address, what it is a copy of and its bounds, and both behind a store of a copy of A, 05 to 0F, to one of C000 to
/// C0FF.
type Widened = (u16, Option<Register>, (u8, u8), Option<Register>, (u8, u8));

const WIDENED: [Widened; 5] = [
    (
        0xC000,
        Some(Register::A),
        (0x0A, 0x14),
        Some(Register::A),
        (0x05, 0x14),
    ),
    (0xC001, None, (0x0A, 0x0A), None, (0x05, 0x0F)),
    (0xC002, Some(Register::B), (0x03, 0x03), None, (0x03, 0x0F)),
    (
        0xC0FF,
        Some(Register::A),
        (0x07, 0x08),
        Some(Register::A),
        (0x05, 0x0F),
    ),
    (0xC100, None, (0x09, 0x09), None, (0x09, 0x09)),
];

fn val(origin: Option<Register>, bounds: (u8, u8)) -> Val {
    let (lo, hi) = bounds;
    match origin {
        None => from_to(lo, hi),
        Some(register) => copy_of(register, lo, hi),
    }
}

/// Each cell among the addresses may hold the value too, and is a copy where both are.
#[test]
fn cells_are_widened(rt: HostRuntime) {
    let mut state = Abs::new(entered());
    for (address, origin, bounds, _, _) in WIDENED {
        state = with_cell(Rules::Extended, &state, address, val(origin, bounds));
    }
    let stored = copy_of(Register::A, 0x05, 0x0F);
    let span = Span {
        first: 0xC000,
        last: 0xC0FF,
        low: none(),
    };
    let widened = widened_cells(&state, false, span, stored);
    for (address, _, _, origin, bounds) in WIDENED {
        let held = cell_at(address, widened.cells());
        assert!(rt; held == val(origin, bounds), "{address:x}");
    }
    assert!(rt; widened.cells().len() == 5);
}

/// By the rules of version 4 a cell keeps the low bits that all its values have, and cells stay at addresses that don't count.
#[test]
fn widened_cells_keep_common_low_bits(rt: HostRuntime) {
    let mut state = Abs::new(entered());
    for address in [0xC000, 0xC001] {
        state = with_cell(Rules::Extended, &state, address, single(4));
    }
    let span = Span {
        first: 0xC000,
        last: 0xC0FF,
        low: low_bits(1, 0),
    };
    let stored = Val {
        low_bits: 3,
        ..from_to(0, 8)
    };
    let widened = widened_cells(&state, true, span, stored);
    let joined = Val {
        low_bits: 2,
        ..from_to(0, 8)
    };
    assert!(rt; cell_at(0xC000, widened.cells()) == joined);
    assert!(rt; cell_at(0xC001, widened.cells()) == single(4));
}

/// The 64th cell finds room, and the 65th doesn't.
#[test]
fn at_most_64_cells(rt: HostRuntime) {
    let mut state = Abs::new(entered());
    for i in 0..63 {
        state = with_cell(Rules::Extended, &state, 0xC000 + i, up_to(1));
    }
    for (address, count, hi) in [(0xFF80, 64, 9), (0xFF81, 64, 255), (0xC000, 64, 9)] {
        state = with_cell(Rules::Extended, &state, address, up_to(9));
        assert!(rt; state.cells().len() == count, "{address:x}");
        assert!(rt; cell_at(address, state.cells()) == up_to(hi), "{address:x}");
    }
}
