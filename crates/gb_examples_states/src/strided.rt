//! What operations leave of values with low bits, by the rules of version 4: each worked by hand, with operands that aren't single.

use gb_abs_effects::transfer::{Inputs, transfer_in};
use gb_abs_effects::writes::{AbsWrite, quiet};
use gb_domain::types::{Core, Halves, May, Origin, Val};
use gb_ops::op::{AluOp, Indirect, Op, Operand, Pair, Shift};
use gb_samples::states::{ANY, CLEAR, EITHER, SET, entered, with_carry};
use gb_vals::strided::{
    alu, alu_itself, complement, decrement, increment, reset_bit, set_bit, shift,
};
use gb_vals::vals::single;
use std::process::Abort;

/// The bytes from the first to the second, each 2^n-th for the third.
type Each = (u8, u8, u8);

fn val(each: Each) -> Val {
    let (lo, hi, low_bits) = each;
    Val {
        lo,
        hi,
        low_bits,
        origin: None,
    }
}

const ANY_BYTE: Each = (0x00, 0xFF, 0);

/// 10, 20, 30, 40 and 50.
const TENS: Each = (0x10, 0x50, 4);

/// 11, 21 and 31.
const ONES: Each = (0x11, 0x31, 4);

/// An operation of A with another operand: the operation, A, the operand, the carry before it, and A after it.
type Operation = (AluOp, Each, Each, May, Each);

const OPERATIONS: &[Operation] = &[
    // 10..50 and 04 or 0C: 14 to 5C, of which three bits are known.
    (AluOp::Add, TENS, (0x04, 0x0C, 3), EITHER, (0x14, 0x5C, 3)),
    // Of a single operand all eight are.
    (AluOp::Add, TENS, (0x03, 0x03, 0), EITHER, (0x13, 0x53, 4)),
    // E0 or F0 and 10 or 20: F0 to 110, so any byte that ends with 0.
    (
        AluOp::Add,
        (0xE0, 0xF0, 4),
        (0x10, 0x20, 4),
        EITHER,
        (0x00, 0xF0, 4),
    ),
    (
        AluOp::Sub,
        (0x24, 0x64, 4),
        (0x05, 0x05, 0),
        EITHER,
        (0x1F, 0x5F, 4),
    ),
    // 04 or 14 less 08 or 18: some below 0, and all end with C.
    (
        AluOp::Sub,
        (0x04, 0x14, 4),
        (0x08, 0x18, 4),
        EITHER,
        (0x0C, 0xFC, 4),
    ),
    // The carry counts; where it isn't known, nothing is.
    (AluOp::Adc, TENS, (0x03, 0x03, 0), SET, (0x14, 0x54, 4)),
    (AluOp::Adc, TENS, (0x03, 0x03, 0), CLEAR, (0x13, 0x53, 4)),
    (AluOp::Adc, TENS, (0x03, 0x03, 0), EITHER, (0x13, 0x54, 0)),
    (
        AluOp::Sbc,
        (0x20, 0x60, 4),
        (0x03, 0x03, 0),
        SET,
        (0x1C, 0x5C, 4),
    ),
    (
        AluOp::Sbc,
        (0x20, 0x60, 4),
        (0x03, 0x03, 0),
        EITHER,
        (0x1C, 0x5D, 0),
    ),
    // A 0 of one operand is a 0 of AND; a 1 of it is known only where the other bit is.
    (
        AluOp::And,
        ANY_BYTE,
        (0xF0, 0xF0, 0),
        EITHER,
        (0x00, 0xF0, 4),
    ),
    (
        AluOp::And,
        ANY_BYTE,
        (0x80, 0x80, 0),
        EITHER,
        (0x00, 0x80, 7),
    ),
    (
        AluOp::And,
        ANY_BYTE,
        (0x07, 0x07, 0),
        EITHER,
        (0x00, 0x07, 0),
    ),
    // 05, 15 .. 45 and 3E: they end with 4, up to 3E.
    (
        AluOp::And,
        (0x05, 0x45, 4),
        (0x3E, 0x3E, 0),
        EITHER,
        (0x04, 0x34, 4),
    ),
    // Up to 7F only 00 ends with seven zeros.
    (
        AluOp::And,
        (0x00, 0x7F, 0),
        (0x80, 0x80, 0),
        EITHER,
        (0x00, 0x00, 0),
    ),
    // A 1 of one operand is a 1 of OR.
    (
        AluOp::Or,
        ANY_BYTE,
        (0x0F, 0x0F, 0),
        EITHER,
        (0x0F, 0xFF, 4),
    ),
    (AluOp::Or, TENS, (0x03, 0x03, 0), EITHER, (0x13, 0xF3, 4)),
    // Of XOR both bits have to be known.
    (AluOp::Xor, TENS, (0x05, 0x05, 0), EITHER, (0x05, 0xF5, 4)),
    (AluOp::Xor, ANY_BYTE, (0x05, 0x05, 0), EITHER, ANY_BYTE),
    // CP leaves A.
    (AluOp::Cp, TENS, (0x20, 0x20, 0), EITHER, TENS),
];

#[test]
fn operations_leave_low_bits(rt: HostRuntime) {
    for &(op, a, operand, carry, want) in OPERATIONS {
        let outcome = alu(op, val(a), val(operand), with_carry(carry));
        assert!(rt; outcome.val == val(want), "{:x} {:x}", want.0, want.1);
    }
    // The flags go by the bounds: 04 to 14 less 08 to 18 may be 0 by them.
    let (a, operand) = ((0x04, 0x14, 4), (0x08, 0x18, 4));
    let outcome = alu(AluOp::Sub, val(a), val(operand), with_carry(CLEAR));
    assert!(rt; outcome.flags.zero == EITHER && outcome.flags.carry == EITHER);
}

/// An operation of A with A: the operation, A, the carry before it, and A after it.
type Itself = (AluOp, Each, May, Each);

const ITSELF: [Itself; 8] = [
    // Twice 11, 21 and 31: five bits are known.
    (AluOp::Add, ONES, EITHER, (0x22, 0x62, 5)),
    (AluOp::Add, ANY_BYTE, EITHER, (0x00, 0xFE, 1)),
    // Twice 01 and twice 81 are 02.
    (AluOp::Add, (0x01, 0x81, 7), EITHER, (0x02, 0x02, 0)),
    // Of the others nothing is, but that AND and OR leave A.
    (AluOp::Adc, ONES, CLEAR, (0x22, 0x62, 0)),
    (AluOp::Sbc, ONES, SET, ANY_BYTE),
    (AluOp::And, ONES, EITHER, ONES),
    (AluOp::Or, ONES, EITHER, ONES),
    (AluOp::Xor, ONES, EITHER, (0x00, 0x00, 0)),
];

#[test]
fn operations_with_itself_leave_low_bits(rt: HostRuntime) {
    for (op, a, carry, want) in ITSELF {
        let outcome = alu_itself(op, val(a), with_carry(carry));
        assert!(rt; outcome.val == val(want), "{:x} {:x}", want.0, want.1);
    }
    // A copy stays one, with its low bits.
    let copy = Val {
        origin: Some(Origin::A),
        ..val(ONES)
    };
    let kept = alu_itself(AluOp::And, copy, with_carry(EITHER));
    assert!(rt; kept.val == copy);
}

/// What is made of a byte: the byte before, and after.
#[derive(Clone, Copy)]
enum StridedStep {
    Increment(Each, Each),
    Decrement(Each, Each),
    Complement(Each, Each),
    Shifted(Shift, Each, Each),
    Reset(u8, Each, Each),
    Set(u8, Each, Each),
}

use StridedStep::{Complement, Decrement, Increment, Reset, Set, Shifted};

fn agrees(step: &StridedStep) -> bool {
    let flags = with_carry(EITHER);
    match *step {
        Increment(before, after) => increment(val(before), flags).val == val(after),
        Decrement(before, after) => decrement(val(before), flags).val == val(after),
        Complement(before, after) => complement(val(before), flags).val == val(after),
        Shifted(how, before, after) => shift(how, val(before), flags).val == val(after),
        Reset(bit, before, after) => reset_bit(bit, val(before)) == val(after),
        Set(bit, before, after) => set_bit(bit, val(before)) == val(after),
    }
}

const STEPS: &[StridedStep] = &[
    Increment(TENS, (0x11, 0x51, 4)),
    // FF is followed by 00.
    Increment((0x0F, 0xFF, 4), (0x00, 0xF0, 4)),
    Decrement(TENS, (0x0F, 0x4F, 4)),
    Decrement((0x00, 0xF0, 4), (0x0F, 0xFF, 4)),
    Complement((0x11, 0x51, 4), (0xAE, 0xEE, 4)),
    // One more low bit, of any byte.
    Shifted(Shift::Sla, ONES, (0x02, 0xE2, 5)),
    Shifted(Shift::Sla, ANY_BYTE, (0x00, 0xFE, 1)),
    // One less: half of 12, 22 .. 52.
    Shifted(Shift::Srl, (0x12, 0x52, 4), (0x09, 0x29, 3)),
    Shifted(Shift::Srl, (0x11, 0x21, 1), (0x08, 0x10, 0)),
    Shifted(Shift::Srl, (0x10, 0x21, 0), (0x08, 0x10, 0)),
    // 42, 46, 4A and 4E become 24, 64, A4 and E4.
    Shifted(Shift::Swap, (0x42, 0x4E, 2), (0x24, 0xE4, 6)),
    Shifted(Shift::Swap, (0x42, 0x45, 0), (0x24, 0x54, 4)),
    Shifted(Shift::Swap, (0x41, 0x49, 3), (0x14, 0x94, 7)),
    Shifted(Shift::Swap, (0x42, 0x52, 4), ANY_BYTE),
    Shifted(Shift::Sra, ONES, ANY_BYTE),
    // Of any byte bit 0 alone is known afterwards.
    Reset(0, ANY_BYTE, (0x00, 0xFE, 1)),
    Reset(3, (0x18, 0x58, 4), (0x00, 0x50, 4)),
    Set(0, ANY_BYTE, (0x01, 0xFF, 1)),
    Set(3, TENS, (0x18, 0xF8, 4)),
    // Bit 0 isn't known, so none is.
    Set(1, ANY_BYTE, ANY_BYTE),
];

#[test]
fn bytes_keep_low_bits(rt: HostRuntime) {
    for (i, step) in STEPS.iter().enumerate() {
        assert!(rt; agrees(step), "step {i}");
    }
}

// ---- pairs

/// The halves of a pair, the high one first.
type Word = [Each; 2];

const ANY_WORD: Halves = Halves {
    high: ANY,
    low: ANY,
};

/// A core with this HL and this BC.
fn with_words(hl: Word, bc: Word) -> Core {
    let mut core = entered();
    let [h, l] = hl;
    let [b, c] = bc;
    core.registers.h = val(h);
    core.registers.l = val(l);
    core.registers.b = val(b);
    core.registers.c = val(c);
    core
}

/// What an instruction leaves, by the rules of version 4 or by those before it, where SP is C005.
fn after(is_whole: bool, op: Op, core: &Core, word: Halves) -> (Core, AbsWrite) {
    let inputs = Inputs {
        is_whole,
        next: 0x1234,
        sp: Halves {
            high: single(0xC0),
            low: single(0x05),
        },
        word,
    };
    let mut effect = quiet(core);
    transfer_in(op, &inputs, &mut effect);
    (effect.core, effect.write)
}

/// C000, C010 .. C0F0 and D000 .. D0F0.
const ROWS: Word = [(0xC0, 0xD0, 4), (0x00, 0xF0, 4)];

/// An instruction, whether by the rules of version 4, HL before and after; BC is C0 to D0, 03 or 13.
type Counted = (Op, bool, Word, Word);

const COUNTED: [Counted; 11] = [
    (
        Op::IncrementPair(Pair::Hl),
        true,
        ROWS,
        [(0xC0, 0xD0, 4), (0x01, 0xF1, 4)],
    ),
    (
        Op::IncrementPair(Pair::Hl),
        false,
        ROWS,
        [(0xC0, 0xD0, 0), (0x01, 0xF1, 0)],
    ),
    // The low byte may carry, so of the high byte nothing is known.
    (
        Op::IncrementPair(Pair::Hl),
        true,
        [(0xC0, 0xD0, 4), (0x0F, 0xFF, 4)],
        [(0xC0, 0xD1, 0), (0x00, 0xF0, 4)],
    ),
    (
        Op::DecrementPair(Pair::Hl),
        true,
        [(0xC0, 0xD0, 4), (0x10, 0xF0, 4)],
        [(0xC0, 0xD0, 4), (0x0F, 0xEF, 4)],
    ),
    (
        Op::DecrementPair(Pair::Hl),
        true,
        ROWS,
        [(0xBF, 0xD0, 0), (0x0F, 0xFF, 4)],
    ),
    // HL counts as these do.
    (
        Op::StoreA(Indirect::HlIncrement),
        true,
        ROWS,
        [(0xC0, 0xD0, 4), (0x01, 0xF1, 4)],
    ),
    (
        Op::StoreA(Indirect::HlDecrement),
        true,
        ROWS,
        [(0xBF, 0xD0, 0), (0x0F, 0xFF, 4)],
    ),
    // L and 03 or 13; twice 01, 11 .. F1; L and 05.
    (Op::AddHl(Pair::Bc), true, ROWS, [ANY_BYTE, (0x03, 0xF3, 4)]),
    (Op::AddHl(Pair::Bc), false, ROWS, [ANY_BYTE, ANY_BYTE]),
    (
        Op::AddHl(Pair::Hl),
        true,
        [(0xC0, 0xD0, 4), (0x01, 0xF1, 4)],
        [ANY_BYTE, (0x02, 0xE2, 5)],
    ),
    (Op::AddHl(Pair::Sp), true, ROWS, [ANY_BYTE, (0x05, 0xF5, 4)]),
];

#[test]
fn pairs_keep_low_bits(rt: HostRuntime) {
    let bc = [(0xC0, 0xD0, 4), (0x03, 0x13, 4)];
    for (op, is_whole, before, want) in COUNTED {
        let (core, _) = after(is_whole, op, &with_words(before, bc), ANY_WORD);
        let [h, l] = want;
        let registers = core.registers;
        assert!(rt; registers.h == val(h) && registers.l == val(l), "{:x}", l.0);
    }
}

/// The byte at HL is 10 to 50, each 16th; by the rules before version 4 its low bits are forgotten.
#[test]
fn a_byte_in_memory_keeps_low_bits(rt: HostRuntime) {
    let word = Halves {
        high: ANY,
        low: val(TENS),
    };
    let core = with_words(ROWS, ROWS);
    for (is_whole, count) in [(true, 4), (false, 0)] {
        let (_, write) = after(is_whole, Op::Increment(Operand::AtHl), &core, word);
        let AbsWrite::Byte(_, stored) = write else {
            panic!(rt; "nothing is written");
        };
        assert!(rt; stored == val((0x11, 0x51, count)));
    }
}
