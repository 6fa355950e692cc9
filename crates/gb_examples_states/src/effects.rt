//! What instructions make of abstract states.

use gb_abs::span::Span;
use gb_abs_effects::reads::{AbsRead, read_of};
use gb_abs_effects::transfer::{Inputs, transfer_in};
use gb_abs_effects::writes::{AbsEffect, AbsWrite, quiet};
use gb_domain::pairs::ANY_BOUNDS;
use gb_domain::places::StackBytes;
use gb_domain::types::{Core, Flg, Halves, ImeSet, May, Origin, Rules, Val};
use gb_ops::machine::Region;
use gb_ops::op::{AluOp, Condition, Indirect, Op, Operand, Pair, Register, Shift, StackPair};
use gb_relations::transfer::relations_after;
use gb_samples::relations::{are_same, compared};
use gb_samples::states::{ANY, CLEAR, EITHER, OFF, SET, entered, from_to, own, with_carry};
use gb_vals::vals::single;
use std::process::Abort;

const A: Operand = Operand::Register(Register::A);

const B: Operand = Operand::Register(Register::B);

/// The address behind each instruction.
const NEXT: u16 = 0x1234;

/// A word of which nothing is known.
const ANY_WORD: Halves = Halves {
    high: ANY,
    low: ANY,
};

/// Flags of this Z, this H and this carry, N clear.
fn flags(zero: May, half_carry: May, carry: May) -> Flg {
    Flg {
        zero,
        subtract: CLEAR,
        half_carry,
        ..with_carry(carry)
    }
}

fn with_bc(b: Val, c: Val) -> Core {
    let mut core = entered();
    core.registers.b = b;
    core.registers.c = c;
    core
}

fn with_hl(h: Val, l: Val) -> Core {
    let mut core = entered();
    core.registers.h = h;
    core.registers.l = l;
    core
}

/// What an instruction leaves that reads a word, or a byte as its low one, where SP is given.
fn after_with(op: Op, core: &Core, sp: Halves, word: Halves) -> AbsEffect {
    let inputs = Inputs {
        is_whole: false,
        next: NEXT,
        sp,
        word,
    };
    let mut effect = quiet(core);
    transfer_in(op, &inputs, &mut effect);
    effect
}

/// What an instruction that reads nothing leaves.
fn after(op: Op, core: &Core) -> AbsEffect {
    after_with(op, core, ANY_WORD, ANY_WORD)
}

/// The instruction writes nothing, and leaves this core.
fn leaves(rt: &impl Abort, op: Op, before: &Core, core: Core) {
    let want = AbsEffect {
        core,
        write: AbsWrite::Nothing,
    };
    assert!(rt; after(op, before) == want);
}

/// The instruction leaves the core, and writes this.
fn writes(rt: &impl Abort, op: Op, core: &Core, write: AbsWrite) {
    let want = AbsEffect { core: *core, write };
    assert!(rt; after(op, core) == want);
}

/// The bounds of a byte.
type Bounds = (u8, u8);

/// Whether B is a copy of B before, B and C before, after INC and after DEC.
type Count = (bool, [Bounds; 2], [Bounds; 2], [Bounds; 2]);

const ANY_BYTE: Bounds = (0x00, 0xFF);

const COUNTS: [Count; 8] = [
    (
        false,
        [(0, 0), (0xFF, 0xFF)],
        [(1, 1), (0, 0)],
        [(0, 0), (0xFE, 0xFE)],
    ),
    (
        false,
        [(0xFF, 0xFF), (0xFF, 0xFF)],
        [(0, 0), (0, 0)],
        [(0xFF, 0xFF), (0xFE, 0xFE)],
    ),
    (
        false,
        [(0, 0), (0, 0)],
        [(0, 0), (1, 1)],
        [(0xFF, 0xFF), (0xFF, 0xFF)],
    ),
    (
        true,
        [(3, 4), (0x10, 0x20)],
        [(3, 4), (0x11, 0x21)],
        [(3, 4), (0x0F, 0x1F)],
    ),
    (
        true,
        [(3, 4), (0x10, 0xFF)],
        [(3, 5), ANY_BYTE],
        [(3, 4), (0x0F, 0xFE)],
    ),
    (
        true,
        [(3, 4), (0x00, 0x20)],
        [(3, 4), (0x01, 0x21)],
        [(2, 4), ANY_BYTE],
    ),
    (
        false,
        [(0, 0xFE), (0xFF, 0xFF)],
        [ANY_BYTE, ANY_BYTE],
        [(0, 0xFE), (0xFE, 0xFE)],
    ),
    (
        false,
        [(1, 0xFF), (0, 0)],
        [(1, 0xFF), (1, 1)],
        [ANY_BYTE, ANY_BYTE],
    ),
];

/// A core with B and C within these bounds, no copies.
fn with_bounds(bounds: [Bounds; 2]) -> Core {
    let [(b_lo, b_hi), (c_lo, c_hi)] = bounds;
    with_bc(from_to(b_lo, b_hi), from_to(c_lo, c_hi))
}

#[test]
fn counts_words(rt: HostRuntime) {
    for (is_copy, before, up, down) in COUNTS {
        let mut core = with_bounds(before);
        if is_copy {
            core.registers.b.origin = Some(Origin::B);
        }
        leaves(&rt, Op::IncrementPair(Pair::Bc), &core, with_bounds(up));
        leaves(&rt, Op::DecrementPair(Pair::Bc), &core, with_bounds(down));
    }
}

/// A core with a known HL.
fn with_word(hl: u16) -> Core {
    let [h, l] = hl.to_be_bytes();
    with_hl(single(h), single(l))
}

/// HL, which is the address, and HL after (HL+) and after (HL-).
const WORDS: [(u16, u16, u16); 3] = [
    (0xFFFF, 0x0000, 0xFFFE),
    (0x0000, 0x0001, 0xFFFF),
    (0xC0FF, 0xC100, 0xC0FE),
];

/// A is stored where HL was.
fn stores(rt: &impl Abort, how: Indirect, hl: u16, after_it: u16) {
    let stored = after(Op::StoreA(how), &with_word(hl));
    assert!(rt; stored.core == with_word(after_it), "{hl:x}");
    let write = AbsWrite::Byte(Span::one(hl), own(Register::A));
    assert!(rt; stored.write == write, "{hl:x}");
}

#[test]
fn hl_counts_behind_an_access(rt: HostRuntime) {
    for (hl, up, down) in WORDS {
        stores(&rt, Indirect::HlIncrement, hl, up);
        stores(&rt, Indirect::HlDecrement, hl, down);
    }
    // A gets what was read, with its origin.
    let load = Op::LoadA(Indirect::HlDecrement);
    let read = Halves {
        high: ANY,
        low: own(Register::B),
    };
    let loaded = after_with(load, &with_word(0xC000), ANY_WORD, read);
    let mut want = with_word(0xBFFF);
    want.registers.a = own(Register::B);
    assert!(rt; loaded.core == want);
}

/// HL and DE before ADD HL,DE, HL after it, H and the carry.
const SUMS: [(u16, u16, u16, May, May); 5] = [
    (0x0FFF, 0x0001, 0x1000, SET, CLEAR),
    (0x8000, 0x8000, 0x0000, CLEAR, SET),
    (0x1234, 0x4321, 0x5555, CLEAR, CLEAR),
    (0x8A23, 0x0605, 0x9028, SET, CLEAR),
    (0xFFFF, 0xFFFF, 0xFFFE, SET, SET),
];

/// The core after a sum in HL.
fn summed(core: Core, hl: Core, flags: Flg) -> Core {
    let mut want = core;
    want.registers.h = hl.registers.h;
    want.registers.l = hl.registers.l;
    want.flags = flags;
    want
}

#[test]
fn adds_words(rt: HostRuntime) {
    for (hl, de, sum, half_carry, carry) in SUMS {
        let [d, e] = de.to_be_bytes();
        let mut core = with_word(hl);
        core.registers.d = single(d);
        core.registers.e = single(e);
        let want = summed(core, with_word(sum), flags(EITHER, half_carry, carry));
        leaves(&rt, Op::AddHl(Pair::De), &core, want);
    }
    // One byte that isn't known, and SP: any word.
    let mut core = with_hl(single(0x10), from_to(0x10, 0x20));
    core.flags.zero = SET;
    let want = summed(core, with_hl(ANY, ANY), flags(SET, EITHER, EITHER));
    leaves(&rt, Op::AddHl(Pair::Bc), &core, want);
    core.registers.l = single(0x10);
    leaves(&rt, Op::AddHl(Pair::Sp), &core, want);
}

/// SP isn't part of a core.
#[test]
fn sums_with_sp_are_any(rt: HostRuntime) {
    let core = entered();
    let mut want = core;
    want.flags = flags(CLEAR, EITHER, EITHER);
    leaves(&rt, Op::AddSp(5), &core, want);
    want.registers.h = ANY;
    want.registers.l = ANY;
    leaves(&rt, Op::LoadHlSp(5), &core, want);
    leaves(&rt, Op::IncrementPair(Pair::Sp), &core, core);
    leaves(&rt, Op::LoadSpHl, &core, core);
    writes(
        &rt,
        Op::StoreSp(0xC000),
        &core,
        AbsWrite::Word(0xC000, ANY, ANY),
    );
}

/// An instruction where SP is DFED, HL before it and after it, H and the carry.
const WITH_SP: [(Op, u16, u16, May, May); 5] = [
    (Op::LoadHlSp(0x05), 0x1234, 0xDFF2, SET, CLEAR),
    (Op::LoadHlSp(0xFE), 0x1234, 0xDFEB, SET, SET),
    (Op::AddSp(0x12), 0x1234, 0x1234, CLEAR, CLEAR),
    (Op::AddSp(0x13), 0x1234, 0x1234, SET, SET),
    (Op::AddHl(Pair::Sp), 0x2013, 0x0000, SET, SET),
];

/// Where SP is known, its sums and their flags are.
#[test]
fn sums_with_known_sp_are_exact(rt: HostRuntime) {
    let sp = Halves {
        high: single(0xDF),
        low: single(0xED),
    };
    for (op, before, hl, half_carry, carry) in WITH_SP {
        let mut core = with_word(before);
        core.flags.zero = CLEAR;
        let want = summed(core, with_word(hl), flags(CLEAR, half_carry, carry));
        let left = after_with(op, &core, sp, ANY_WORD);
        assert!(rt; left.core == want, "{hl}");
    }
}

#[test]
fn pushes(rt: HostRuntime) {
    let mut core = entered();
    let push = |high, low| AbsWrite::Push { high, low };
    writes(
        &rt,
        Op::Push(StackPair::Bc),
        &core,
        push(own(Register::B), own(Register::C)),
    );
    // F from 00 to F0, its own; then Z set and the carry clear.
    let byte = Val {
        origin: Some(Origin::F),
        ..from_to(0x00, 0xF0)
    };
    writes(
        &rt,
        Op::Push(StackPair::Af),
        &core,
        push(own(Register::A), byte),
    );
    core.flags = flags(SET, CLEAR, CLEAR);
    writes(
        &rt,
        Op::Push(StackPair::Af),
        &core,
        push(own(Register::A), single(0x80)),
    );
    // Calls push the address behind them.
    for op in [
        Op::Call(0x4000),
        Op::Restart(0x38),
        Op::CallIf(Condition::Zero, 0x4000),
    ] {
        writes(&rt, op, &core, push(single(0x12), single(0x34)));
    }
}

/// POP AF makes A 12 and leaves these flags.
fn pops_af(rt: &impl Abort, core: &Core, low: Val, flags: Flg) {
    let mut want = *core;
    want.registers.a = single(0x12);
    want.flags = flags;
    let word = Halves {
        high: single(0x12),
        low,
    };
    let popped = after_with(Op::Pop(StackPair::Af), core, ANY_WORD, word);
    assert!(rt; popped.core == want, "{} to {}", low.lo, low.hi);
}

/// What was pushed decides what is popped is a copy of.
#[test]
fn pops(rt: HostRuntime) {
    let mut core = entered();
    core.flags = flags(SET, CLEAR, CLEAR);
    let mut want = core;
    want.registers.h = own(Register::D);
    want.registers.l = own(Register::E);
    let pop = Op::Pop(StackPair::Hl);
    let word = Halves {
        high: own(Register::D),
        low: own(Register::E),
    };
    let popped = after_with(pop, &core, ANY_WORD, word);
    assert!(rt; popped.core == want);
    // F1 sets all flags, its low bits dropped; a byte that isn't known gives any flags; F's own byte is F.
    let all_set = Flg {
        subtract: SET,
        ..flags(SET, SET, SET)
    };
    let f = Val {
        origin: Some(Origin::F),
        ..from_to(0x00, 0xF0)
    };
    pops_af(&rt, &core, single(0xF1), all_set);
    pops_af(&rt, &core, f, entered().flags);
    pops_af(&rt, &core, own(Register::B), with_carry(EITHER));
}

/// What A's comparison is after each instruction; with 7 before.
const TESTS: [(Op, Option<u8>); 53] = [
    (Op::AluImmediate(AluOp::Cp, 10), Some(10)),
    (Op::Alu(AluOp::And, A), Some(0)),
    (Op::Alu(AluOp::Or, A), Some(0)),
    (Op::Alu(AluOp::Cp, A), None),
    (Op::Alu(AluOp::Cp, B), None),
    (Op::Alu(AluOp::And, B), None),
    (Op::AluImmediate(AluOp::And, 10), None),
    (Op::AluImmediate(AluOp::Sub, 10), None),
    (Op::Load(A, B), None),
    (Op::Load(A, A), None),
    (Op::LoadImmediate(A, 7), None),
    (Op::LoadA(Indirect::HlDecrement), None),
    (Op::LoadHigh(0x44), None),
    (Op::LoadHighC, None),
    (Op::LoadAbsolute(0xC000), None),
    (Op::Pop(StackPair::Af), None),
    (Op::Increment(B), None),
    (Op::Increment(Operand::AtHl), None),
    (Op::AddHl(Pair::Bc), None),
    (Op::AddHl(Pair::De), None),
    (Op::AddHl(Pair::Sp), None),
    (Op::AddSp(5), None),
    (Op::LoadHlSp(5), None),
    (Op::Alu(AluOp::Sub, B), None),
    (Op::DecimalAdjust, None),
    (Op::Bit(7, A), None),
    (Op::Reset(7, A), None),
    (Op::Shift(Shift::Swap, B), None),
    (Op::Complement, None),
    (Op::SetCarry, None),
    (Op::ComplementCarry, None),
    (Op::RotateA(Shift::Rlc), None),
    (Op::Load(B, A), Some(7)),
    (Op::LoadImmediate(B, 7), Some(7)),
    (Op::Load(Operand::AtHl, A), Some(7)),
    (Op::Set(7, B), Some(7)),
    (Op::Load(Operand::Register(Register::D), B), Some(7)),
    (Op::Load(Operand::AtHl, B), Some(7)),
    (Op::Pop(StackPair::Bc), Some(7)),
    (Op::Pop(StackPair::Hl), Some(7)),
    (Op::Push(StackPair::Bc), Some(7)),
    (Op::Push(StackPair::Af), Some(7)),
    (Op::IncrementPair(Pair::Hl), Some(7)),
    (Op::IncrementPair(Pair::Sp), Some(7)),
    (Op::DecrementPair(Pair::Bc), Some(7)),
    (Op::LoadSpHl, Some(7)),
    (Op::StoreSp(0xC000), Some(7)),
    (Op::Call(0x4000), Some(7)),
    (Op::StoreA(Indirect::HlIncrement), Some(7)),
    (Op::LoadPair(Pair::Bc, 0x1234), Some(7)),
    (Op::EnableInterrupts, Some(7)),
    (Op::ReturnFromInterrupt, Some(7)),
    (Op::Halt, Some(7)),
];

/// A stack of which no item may be a place.
const STACK: StackBytes = StackBytes {
    region: Region {
        first: 0xDF00,
        last: 0xDFFF,
    },
    base: 0,
    count: 0,
};

/// Whether an instruction behind one comparison of A leaves the other, and nothing else that is known together.
pub fn leaves_test(before: Option<u8>, op: Op, after: Option<u8>) -> bool {
    let known = compared(before);
    let registers = entered().registers;
    let left = relations_after(
        Rules::Simple,
        false,
        STACK,
        op,
        ANY_BOUNDS,
        &registers,
        ANY,
        &known,
    );
    are_same(&left, &compared(after))
}

#[test]
fn a_test_is_left_and_lost(rt: HostRuntime) {
    for (i, (op, test)) in TESTS.into_iter().enumerate() {
        assert!(rt; leaves_test(Some(7), op, test), "row {i}");
    }
}

/// The bytes that an instruction may read.
#[derive(Clone, Copy)]
enum Reads {
    Nothing,
    Top,
    /// From one address to another.
    Bytes(u16, u16),
}

/// Where HL is C010 to C120 and C is 80 to 90.
const READS: [(Op, Reads); 13] = [
    (Op::LoadHighC, Reads::Bytes(0xFF80, 0xFF90)),
    (Op::LoadHigh(0x44), Reads::Bytes(0xFF44, 0xFF44)),
    (Op::LoadAbsolute(0xC000), Reads::Bytes(0xC000, 0xC000)),
    (
        Op::LoadA(Indirect::HlIncrement),
        Reads::Bytes(0xC010, 0xC120),
    ),
    (Op::LoadA(Indirect::Bc), Reads::Bytes(0x0080, 0xFF90)),
    (Op::Load(B, Operand::AtHl), Reads::Bytes(0xC010, 0xC120)),
    (Op::Set(3, Operand::AtHl), Reads::Bytes(0xC010, 0xC120)),
    (Op::Load(Operand::AtHl, B), Reads::Nothing),
    (Op::Alu(AluOp::Add, B), Reads::Nothing),
    (Op::Pop(StackPair::Bc), Reads::Top),
    (Op::ReturnIf(Condition::Zero), Reads::Top),
    (Op::ReturnFromInterrupt, Reads::Top),
    (Op::Jump(0x4000), Reads::Nothing),
];

fn is_read(read: AbsRead, want: Reads) -> bool {
    match want {
        Reads::Nothing => read == AbsRead::Nothing,
        Reads::Top => read == AbsRead::Top,
        Reads::Bytes(first, last) => read
            == AbsRead::Byte(Span {
                last,
                ..Span::one(first)
            }),
    }
}

#[test]
fn reads_are_where_the_machine_may_read(rt: HostRuntime) {
    let mut core = with_hl(from_to(0xC0, 0xC1), from_to(0x10, 0x20));
    core.registers.c = from_to(0x80, 0x90);
    for (i, (op, want)) in READS.into_iter().enumerate() {
        assert!(rt; is_read(read_of(op, &core), want), "row {i}");
    }
    let at = Span {
        last: 0xFF90,
        ..Span::one(0xFF80)
    };
    writes(
        &rt,
        Op::StoreHighC,
        &core,
        AbsWrite::Byte(at, own(Register::A)),
    );
}

#[test]
fn changes_bytes(rt: HostRuntime) {
    let core = entered();
    let at_hl = Span {
        last: 0xFFFF,
        ..Span::one(0x0000)
    };
    // What (HL) held goes up by one and back; C stays, H is either.
    let read = Halves {
        high: ANY,
        low: from_to(3, 9),
    };
    let counted = after_with(Op::Increment(Operand::AtHl), &core, ANY_WORD, read);
    let mut want = core;
    want.flags = flags(CLEAR, EITHER, EITHER);
    let write = AbsWrite::Byte(at_hl, from_to(4, 10));
    assert!(rt; counted.core == want && counted.write == write);
    // A copy keeps its origin, in registers and in memory.
    let mut want = core;
    want.registers.d = own(Register::B);
    leaves(
        &rt,
        Op::Load(Operand::Register(Register::D), B),
        &core,
        want,
    );
    let copy = AbsWrite::Byte(at_hl, own(Register::B));
    writes(&rt, Op::Load(Operand::AtHl, B), &core, copy);
    // SUB B of known bytes: 12 - 34 is DE, with both borrows.
    let mut core = with_bc(single(0x34), ANY);
    core.registers.a = single(0x12);
    let mut want = core;
    want.registers.a = single(0xDE);
    want.flags = Flg {
        subtract: SET,
        ..flags(CLEAR, SET, SET)
    };
    leaves(&rt, Op::Alu(AluOp::Sub, B), &core, want);
    // DAA of 9A is 00: 66 is added, the carry set.
    core.registers.a = single(0x9A);
    core.flags = flags(CLEAR, CLEAR, CLEAR);
    want.registers.a = single(0x00);
    want.flags = flags(SET, CLEAR, SET);
    leaves(&rt, Op::DecimalAdjust, &core, want);
}

/// An instruction, IME before, and after.
const INTERRUPTS: [(Op, ImeSet, ImeSet); 8] = [
    (Op::EnableInterrupts, OFF, PENDING),
    (Op::EnableInterrupts, ON, ON),
    (Op::EnableInterrupts, ANY_IME, PENDING_OR_ON),
    (Op::EnableInterrupts, PENDING, ON),
    (Op::DisableInterrupts, OFF_OR_ON, OFF),
    (Op::ReturnFromInterrupt, OFF, ON),
    (Op::Return, OFF, OFF),
    (Op::Halt, OFF_OR_ON, OFF_OR_ON),
];

const PENDING: ImeSet = ImeSet {
    off: false,
    pending: true,
    on: false,
};

const ON: ImeSet = ImeSet {
    off: false,
    pending: false,
    on: true,
};

const OFF_OR_ON: ImeSet = ImeSet {
    off: true,
    pending: false,
    on: true,
};

const PENDING_OR_ON: ImeSet = ImeSet {
    off: false,
    pending: true,
    on: true,
};

const ANY_IME: ImeSet = ImeSet {
    off: true,
    pending: true,
    on: true,
};

#[test]
fn interrupts_are_set(rt: HostRuntime) {
    for (i, (op, before, want)) in INTERRUPTS.into_iter().enumerate() {
        let core = Core {
            ime: before,
            ..entered()
        };
        assert!(rt; after(op, &core).core.ime == want, "row {i}");
    }
}
