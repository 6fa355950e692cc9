//! Low bits, and intervals of bytes that have them.

use gb_domain::interval::{cut, lies_in, with_low_bits};
use gb_domain::low_bits::{common, covers};
use gb_domain::{LowBits, StridedInterval};
use gb_vals::low_logic::{complement, conjunction, disjunction, exclusion, reset_bit, set_bit};
use gb_vals::low_shifts::{doubled, halved, swapped};
use gb_vals::low_sums::{
    decremented, difference, high_decremented, high_incremented, incremented, sum,
};
use std::process::Abort;

/// So many low bits, which are these.
type Low = (u8, u8);

/// The bytes from the first to the second, each 2^n-th for the third.
type Each = (u8, u8, u8);

fn known(low: Low) -> LowBits {
    let (count, bits) = low;
    LowBits { count, bits }
}

fn each(interval: Each) -> StridedInterval {
    let (lo, hi, count) = interval;
    StridedInterval { lo, hi, count }
}

const UNKNOWN: Low = (0, 0);

/// What is known of operands, and of the result.
#[derive(Clone, Copy)]
enum LowBitsStep {
    Add(Low, Low, Option<bool>, Low),
    Subtract(Low, Low, Option<bool>, Low),
    And(Low, Low, Low),
    Or(Low, Low, Low),
    Xor(Low, Low, Low),
    Complement(Low, Low),
    Reset(u8, Low, Low),
    Set(u8, Low, Low),
    Increment(Low, Low),
    Decrement(Low, Low),
    /// The high byte of a pair that is counted up; its low byte is at most this.
    IncrementHigh(Low, u8, Low),
    /// The high byte of a pair that is counted down; its low byte is at least this.
    DecrementHigh(Low, u8, Low),
    Double(Low, Low),
    Halve(Low, Low),
    /// SWAP of bytes with this high digit.
    Swap(u8, Low, Low),
    Join(Low, Low, Low),
    Covers(Low, Low, bool),
}

use LowBitsStep::{
    Add, And, Complement, Covers, Decrement, DecrementHigh, Double, Halve, Increment,
    IncrementHigh, Join, Or, Reset, Set, Subtract, Swap, Xor,
};

fn agrees(step: &LowBitsStep) -> bool {
    match *step {
        Add(left, right, carry, result) => sum(known(left), known(right), carry) == known(result),
        Subtract(left, right, borrow, result) => difference(known(left), known(right), borrow)
            == known(result),
        And(left, right, result) => conjunction(known(left), known(right)) == known(result),
        Or(left, right, result) => disjunction(known(left), known(right)) == known(result),
        Xor(left, right, result) => exclusion(known(left), known(right)) == known(result),
        Complement(operand, result) => complement(known(operand)) == known(result),
        Reset(bit, operand, result) => reset_bit(bit, known(operand)) == known(result),
        Set(bit, operand, result) => set_bit(bit, known(operand)) == known(result),
        Increment(operand, result) => incremented(known(operand)) == known(result),
        Decrement(operand, result) => decremented(known(operand)) == known(result),
        IncrementHigh(operand, most, result) => high_incremented(known(operand), most)
            == known(result),
        DecrementHigh(operand, least, result) => high_decremented(known(operand), least)
            == known(result),
        Double(operand, result) => doubled(known(operand)) == known(result),
        Halve(operand, result) => halved(known(operand)) == known(result),
        Swap(digit, operand, result) => swapped(digit, known(operand)) == known(result),
        Join(left, right, result) => common(known(left), known(right)) == known(result),
        Covers(left, right, result) => covers(known(left), known(right)) == result,
    }
}

const LOW_BITS: &[LowBitsStep] = &[
    // ..01 and .011: two bits of both are known.
    Add((2, 0b01), (3, 0b011), Some(false), (2, 0b00)),
    Add((2, 0b01), (3, 0b011), Some(true), (2, 0b01)),
    // ADC with a carry that isn't known.
    Add((2, 0b01), (3, 0b011), None, UNKNOWN),
    // 1 - 3 is 2 modulo 4.
    Subtract((2, 0b01), (3, 0b011), Some(false), (2, 0b10)),
    Subtract((2, 0b01), (3, 0b011), Some(true), (2, 0b01)),
    // Bit 2 is 1 in one and isn't known in the other.
    And((4, 0b0110), (2, 0b10), (2, 0b10)),
    // Bits 2 and 3 are 0 in one.
    And((4, 0b0010), (2, 0b10), (4, 0b0010)),
    Or((3, 0b101), (1, 0b0), (1, 0b1)),
    // Bit 1 is 1 in one.
    Or((2, 0b11), (1, 0b0), (2, 0b11)),
    Xor((3, 0b101), (2, 0b11), (2, 0b10)),
    Complement((3, 0b101), (3, 0b010)),
    // Only bit 0 is known afterwards.
    Reset(0, UNKNOWN, (1, 0)),
    Reset(0, (3, 0b111), (3, 0b110)),
    Set(1, (1, 0b0), (2, 0b10)),
    // Bit 0 isn't known, so none is.
    Set(1, UNKNOWN, UNKNOWN),
    Increment((2, 0b11), (2, 0b00)),
    Decrement((3, 0b000), (3, 0b111)),
    // A low byte of FF may carry, one of 00 may borrow.
    IncrementHigh((2, 0b01), 0xFE, (2, 0b01)),
    IncrementHigh((2, 0b01), 0xFF, UNKNOWN),
    DecrementHigh((2, 0b01), 0x01, (2, 0b01)),
    DecrementHigh((2, 0b01), 0x00, UNKNOWN),
    Double((2, 0b01), (3, 0b010)),
    Double(UNKNOWN, (1, 0)),
    Halve((3, 0b110), (2, 0b11)),
    Halve(UNKNOWN, UNKNOWN),
    // 30 to 3F with ..01: 13, 53, 93 and D3.
    Swap(3, (2, 0b01), (6, 0b01_0011)),
    // 101 and 001 have 01 in common.
    Join((3, 0b101), (3, 0b001), (2, 0b01)),
    Join((3, 0b101), (2, 0b10), UNKNOWN),
    Covers((3, 0b101), (2, 0b01), true),
    Covers((2, 0b01), (3, 0b101), false),
];

#[test]
fn low_bits_are_as_worked(rt: HostRuntime) {
    for (i, step) in LOW_BITS.iter().enumerate() {
        assert!(rt; agrees(step), "step {i}");
    }
}

/// What is left of an interval.
#[derive(Clone, Copy)]
enum IntervalStep {
    /// Of the bytes from lo to hi those with the low bits.
    Keep(u8, u8, Low, Option<Each>),
    Cut(Each, Each, Option<Each>),
    LiesIn(Each, Each, bool),
}

use IntervalStep::{Cut, Keep, LiesIn};

fn is_same(left: Option<StridedInterval>, wanted: Option<Each>) -> bool {
    match (left, wanted) {
        (None, None) => true,
        (Some(left), Some(wanted)) => left == each(wanted),
        _ => false,
    }
}

fn is_left(step: &IntervalStep) -> bool {
    match *step {
        Keep(lo, hi, low, result) => is_same(with_low_bits(lo, hi, known(low)), result),
        Cut(interval, other, result) => is_same(cut(each(interval), each(other)), result),
        LiesIn(interval, other, result) => lies_in(each(interval), each(other)) == result,
    }
}

const INTERVALS: &[IntervalStep] = &[
    Keep(2, 20, (2, 0b11), Some((3, 19, 2))),
    // One byte has no count.
    Keep(4, 8, (2, 0b11), Some((7, 7, 0))),
    Keep(8, 10, (2, 0b11), None),
    // 3 7 11 15 19.
    Cut((3, 19, 2), (0, 10, 0), Some((3, 7, 2))),
    Cut((3, 19, 2), (8, 10, 0), None),
    // 1 and 9 are 1 modulo 4.
    Cut((1, 9, 3), (3, 19, 2), None),
    // 3 11 19 27.
    Cut((3, 19, 2), (3, 27, 3), Some((3, 19, 3))),
    Cut((3, 19, 2), (11, 11, 0), Some((11, 11, 0))),
    LiesIn((3, 19, 3), (3, 27, 2), true),
    LiesIn((3, 19, 2), (3, 27, 3), false),
    LiesIn((11, 11, 0), (3, 27, 3), true),
    LiesIn((3, 19, 3), (4, 27, 0), false),
];

#[test]
fn intervals_are_as_worked(rt: HostRuntime) {
    for (i, step) in INTERVALS.iter().enumerate() {
        assert!(rt; is_left(step), "step {i}");
    }
}
