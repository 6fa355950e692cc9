//! Bytes that a procedure names to be kept: what it begins with, and what its caller goes on with.

use arrayvec::ArrayVec;
use gb_abs::cells::with_cell;
use gb_abs::covering::cell_at;
use gb_abs::stack::push;
use gb_domain::StridedInterval;
use gb_domain::pairs::ANY_PAIRS;
use gb_domain::places::OneByte;
use gb_domain::relations::Relations;
use gb_domain::summary::{Fact, Summary};
use gb_domain::types::{Halves, Rules, Setting};
use gb_ops::machine::{Kind, Region};
use gb_samples::states::{ANY, entered, from_to};
use gb_verify::{Abs, Core, Origin, Program, Range, Resumed, Val, enter, resume};

/// The bytes of C000 to C0FF are 0 to 9.
const FACTS: &[Fact] = &[Fact {
    first: 0xC000,
    last: 0xC0FF,
    step: 1,
    value: StridedInterval {
        lo: 0,
        hi: 9,
        count: 0,
    },
}];

/// What the callee may write.
const RANGES: [Range; 1] = [Range {
    first: 0xC010,
    last: 0xC01F,
}];

const REGION: Region = Region {
    first: 0xDF00,
    last: 0xDFFF,
};

/// Where the caller's states stand, whose base isn't known.
fn setting(is_whole: bool) -> Setting {
    Setting {
        rules: Rules::Extended,
        is_whole,
        is_main: false,
        base: 0,
        entered: ANY_PAIRS,
    }
}

fn program() -> Program<'static> {
    Program {
        is_whole: true,
        kind: Kind::Rom,
        facts: FACTS,
    }
}

/// The callee names C010 and C020.
fn names() -> ArrayVec<u16, 16> {
    let mut names = ArrayVec::new();
    names.push(0xC010);
    names.push(0xC020);
    names
}

/// Bytes that are a copy.
fn copy(origin: Origin, lo: u8, hi: u8) -> Val {
    Val {
        lo,
        hi,
        low_bits: 0,
        origin: Some(origin),
    }
}

/// C010 is 3 to 5, and of C020 the fact alone tells. The flags speak of C010, and the word 0153 is on the stack. None where there is
/// no room for it.
fn caller() -> Option<Abs> {
    let state = with_cell(Rules::Extended, &Abs::new(entered()), 0xC010, from_to(3, 5));
    let word = Halves {
        high: from_to(0x01, 0x01),
        low: from_to(0x53, 0x53),
    };
    let mut state = push(Rules::Extended, &state, word)?;
    state.set_relations(Relations {
        byte: OneByte {
            address: Some(0xC010),
            ..OneByte::default()
        },
        ..Relations::default()
    });
    let shadows = Summary::none().shadows();
    state.set_summary(Summary::of_parts(1, ArrayVec::new(), shadows, None));
    Some(state)
}

/// Both bytes are copies as the callee begins, within what the caller knows of them.
#[test]
fn kept_bytes_entered(rt: HostRuntime) {
    let Some(caller) = caller() else {
        return;
    };
    let begun = enter(&program(), REGION, Rules::Extended, 2, &names(), &caller);
    assert!(rt; cell_at(0xC010, begun.cells()) == copy(Origin::Kept(0), 3, 5));
    assert!(rt; cell_at(0xC020, begun.cells()) == copy(Origin::Kept(1), 0, 9));
    assert!(rt; begun.cells().len() == 2);
}

/// The callee kept C010 in B and put it back; it wrote C011 too, and knows of A, which was C020, that it is 4 to 20. Its exit's E is
/// the return word's low byte.
fn exit() -> Abs {
    let mut core = entered();
    core.registers.a = copy(Origin::Kept(1), 4, 20);
    core.registers.b = copy(Origin::Kept(0), 0, 255);
    core.registers.e = copy(Origin::ReturnLow, 0, 255);
    let state = with_cell(
        Rules::Extended,
        &Abs::new(core),
        0xC010,
        copy(Origin::Kept(0), 0, 255),
    );
    with_cell(Rules::Extended, &state, 0xC011, from_to(7, 7))
}

fn back(caller: &Abs, exit: &Abs, is_whole: bool) -> Resumed {
    let kept = names();
    resume(
        &program(),
        setting(is_whole),
        REGION,
        2,
        &RANGES,
        &kept,
        caller,
        exit,
    )
}

/// Whether a state has these registers A, B and E, this byte at C010, and 7 at C011.
fn has(state: &Abs, a: Val, b: Val, e: Val, variable: Val) -> bool {
    let registers = &state.core().registers;
    registers.a == a
        && registers.b == b
        && registers.e == e
        && cell_at(0xC010, state.cells()) == variable
        && cell_at(0xC011, state.cells()) == from_to(7, 7)
}

/// The caller knows of its variable what it knew, and the flags still speak of it; of A it knows both what the fact says and what the
/// exit does. By the rules of version 3 it knows of none of them more than the exit.
#[test]
fn kept_bytes_back(rt: HostRuntime) {
    let Some(caller) = caller() else {
        return;
    };
    match back(&caller, &exit(), true) {
        Resumed::States(state) => {
            let word = from_to(0x53, 0x53);
            assert!(rt; has(&state, from_to(4, 9), from_to(3, 5), word, from_to(3, 5)));
            assert!(rt; state.relations().byte.address == Some(0xC010));
        }
        _ => assert!(rt; false, "nothing is meant"),
    }
    match back(&caller, &exit(), false) {
        Resumed::States(state) => {
            assert!(rt; has(&state, from_to(4, 20), ANY, ANY, ANY));
        }
        _ => assert!(rt; false, "nothing is meant in version 3"),
    }
}

/// C020 is at most 9, and the exit says that it was 10 at least: the callee doesn't come back.
#[test]
fn nothing_left(rt: HostRuntime) {
    let Some(caller) = caller() else {
        return;
    };
    let mut core: Core = *exit().core();
    core.registers.c = copy(Origin::Kept(1), 10, 20);
    let exit = exit().with_core(core);
    assert!(rt; matches!(back(&caller, &exit, true), Resumed::Nothing));
    assert!(rt; matches!(back(&caller, &exit, false), Resumed::States(_)));
}

/// A cell that another kept byte was copied to gives nothing back: the flags don't speak of C010 any more.
#[test]
fn another_byte_stored(rt: HostRuntime) {
    let Some(caller) = caller() else {
        return;
    };
    let other = copy(Origin::Kept(1), 0, 255);
    let exit = with_cell(Rules::Extended, &exit(), 0xC010, other);
    match back(&caller, &exit, true) {
        Resumed::States(state) => {
            assert!(rt; cell_at(0xC010, state.cells()) == from_to(0, 9));
            assert!(rt; state.relations().byte.address == None);
        }
        _ => assert!(rt; false, "nothing is meant"),
    }
}
