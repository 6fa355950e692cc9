//! Operations on intervals, against the machine's on each of their values. The bounds and the flags that are found by
//! trying are the least that can be, which no contract says.

use gb_domain::types::{Flg, May, Origin, Val};
use gb_effects::arithmetic::{alu_result, decremented, incremented};
use gb_effects::flags::flags_of;
use gb_ops::machine::Computed;
use gb_ops::op::{AluOp, Register, Shift};
use gb_ops::registers::Flags;
use gb_samples::states::{ANY, CLEAR, EITHER, NO_FLAGS, SET, copy_of, from_to, with_carry};
use gb_vals::alu::{alu, alu_itself};
use gb_vals::bits::{may_have_bit, reset_bit, set_bit, test_bit};
use gb_vals::carry::{complement_carry, set_carry};
use gb_vals::daa::adjust;
use gb_vals::flags::{flags_of_val, flags_val, known, known_flags};
use gb_vals::logic::complement;
use gb_vals::outcome::AbsComputed;
use gb_vals::shifts::{rotate_a, shift};
use gb_vals::sums::{decrement, increment};
use gb_vals::vals::single;
use std::process::Abort;

/// Whether a bit may be so.
fn may_be(may: May, bit: bool) -> bool {
    if bit { may.set } else { may.clear }
}

/// What has been seen of a bit.
fn seen(may: May, bit: bool) -> May {
    May {
        clear: may.clear || !bit,
        set: may.set || bit,
    }
}

/// What the machine makes of each of several operands.
#[derive(Clone, Copy)]
struct TriedOperation {
    least: u8,
    most: u8,
    zero: May,
    carry: May,
}

const NOTHING: May = May {
    clear: false,
    set: false,
};

const UNTRIED: TriedOperation = TriedOperation {
    least: 255,
    most: 0,
    zero: NOTHING,
    carry: NOTHING,
};

impl TriedOperation {
    fn and(self, computed: Computed) -> TriedOperation {
        TriedOperation {
            least: self.least.min(computed.value),
            most: self.most.max(computed.value),
            zero: seen(self.zero, computed.flags.zero),
            carry: seen(self.carry, computed.flags.carry),
        }
    }
}

/// Tries each value of two intervals with each carry.
fn try_all(op: AluOp, a: Val, operand: Val, carry: May) -> TriedOperation {
    let mut all = UNTRIED;
    for bit in [false, true] {
        if may_be(carry, bit) {
            let machine = Flags {
                carry: bit,
                ..NO_FLAGS
            };
            for x in u16::from(a.lo)..u16::from(a.hi) + 1 {
                for y in u16::from(operand.lo)..u16::from(operand.hi) + 1 {
                    all = all.and(alu_result(op, x as u8, y as u8, machine));
                }
            }
        }
    }
    all
}

/// Where some sums carry and some don't, all bytes are left; Z is possible exactly where it was seen.
fn check_sum(rt: &impl Abort, op: AluOp, a: Val, operand: Val, carry: May) {
    let all = try_all(op, a, operand, carry);
    let val = if op == AluOp::Cp {
        a
    } else if all.carry == EITHER {
        ANY
    } else {
        from_to(all.least, all.most)
    };
    let flags = Flg {
        zero: all.zero,
        subtract: known(op != AluOp::Add && op != AluOp::Adc),
        half_carry: EITHER,
        carry: all.carry,
        is_own: false,
    };
    let outcome = alu(op, a, operand, with_carry(carry));
    let want = AbsComputed { val, flags };
    assert!(rt;
        outcome == want,
        "{}..{}, {}..{}",
        a.lo,
        a.hi,
        operand.lo,
        operand.hi
    );
}

const INTERVALS: [(u8, u8); 6] = [
    (0, 1),
    (0, 40),
    (100, 140),
    (200, 255),
    (254, 255),
    (0, 255),
];

#[test]
fn sums_of_intervals_are_least(rt: HostRuntime) {
    for (a_lo, a_hi) in INTERVALS {
        let a = from_to(a_lo, a_hi);
        for (lo, hi) in INTERVALS {
            for carry in [CLEAR, SET, EITHER] {
                check_sum(&rt, AluOp::Adc, a, from_to(lo, hi), carry);
                check_sum(&rt, AluOp::Sbc, a, from_to(lo, hi), carry);
            }
            for op in [AluOp::Add, AluOp::Sub, AluOp::Cp] {
                check_sum(&rt, op, a, from_to(lo, hi), SET);
            }
        }
    }
}

/// INC and DEC of an interval: the bounds move where nothing wraps.
fn check_count(rt: &impl Abort, val: Val, carry: May, is_up: bool) {
    let mut all = UNTRIED;
    for x in u16::from(val.lo)..u16::from(val.hi) + 1 {
        let (byte, machine) = (x as u8, flags_of(0x00));
        all = all.and(if is_up {
            incremented(byte, machine)
        } else {
            decremented(byte, machine)
        });
    }
    let wraps = if is_up { val.hi == 255 } else { val.lo == 0 };
    let flags = Flg {
        zero: all.zero,
        subtract: known(!is_up),
        half_carry: EITHER,
        carry,
        is_own: false,
    };
    let counted = if wraps {
        ANY
    } else {
        from_to(all.least, all.most)
    };
    let set = with_carry(carry);
    let outcome = if is_up {
        increment(val, set)
    } else {
        decrement(val, set)
    };
    let want = AbsComputed {
        val: counted,
        flags,
    };
    assert!(rt; outcome == want, "{}..{} {is_up}", val.lo, val.hi);
}

#[test]
fn counts_of_intervals_are_least(rt: HostRuntime) {
    for (lo, hi) in INTERVALS {
        for carry in [CLEAR, SET, EITHER] {
            check_count(&rt, from_to(lo, hi), carry, true);
            check_count(&rt, from_to(lo, hi), carry, false);
        }
    }
}

/// Z, N, H and C.
fn flags(zero: bool, subtract: bool, half_carry: bool, carry: bool) -> Flg {
    known_flags(Flags {
        zero,
        subtract,
        half_carry,
        carry,
    })
}

fn is_known(outcome: AbsComputed, byte: u8, flags: Flg) -> bool {
    outcome.val == single(byte) && outcome.flags == flags
}

/// Of known bytes, by hand: ADD 3A and C6, DAA of 7D, SWAP and RLCA of F1 and 85, CPL and BIT 7.
#[test]
fn known_bytes_are_computed(rt: HostRuntime) {
    let none = flags(false, false, false, false);
    let sum = alu(AluOp::Add, single(0x3A), single(0xC6), none);
    assert!(rt; is_known(sum, 0x00, flags(true, false, true, true)));
    let digits = adjust(single(0x7D), none);
    assert!(rt; is_known(digits, 0x83, none));
    let swapped = shift(Shift::Swap, single(0xF1), none);
    assert!(rt; is_known(swapped, 0x1F, none));
    let rotated = rotate_a(Shift::Rlc, single(0x85), none);
    assert!(rt; is_known(rotated, 0x0B, flags(false, false, false, true)));
    let turned = complement(single(0x35), none);
    assert!(rt; is_known(turned, 0xCA, flags(false, true, true, false)));
    let tested = test_bit(7, single(0x80), none);
    assert!(rt; tested == flags(false, false, true, false));
    assert!(rt; reset_bit(7, single(0x8A)) == single(0x0A));
    assert!(rt; set_bit(3, single(0x80)) == single(0x88));
}

/// 07 and 10 lack bit 3, but 08 to 0F have it; 10 to 17 have bit 4, and none of them bit 3.
#[test]
fn a_byte_between_the_ends_may_have_a_bit(rt: HostRuntime) {
    assert!(rt; may_have_bit(&from_to(0x07, 0x10), 3));
    assert!(rt; may_have_bit(&from_to(0x10, 0x17), 4));
    assert!(rt; !may_have_bit(&from_to(0x10, 0x17), 3));
}

/// RL and RR read the carry, the others don't.
#[test]
fn an_unknown_carry_is_rotated_in(rt: HostRuntime) {
    let flags = with_carry(EITHER);
    assert!(rt; shift(Shift::Rr, single(0x04), flags).val == ANY);
    assert!(rt; shift(Shift::Rl, single(0x04), flags).val == ANY);
    assert!(rt; shift(Shift::Rrc, single(0x04), flags).val == single(0x02));
}

const A: Val = Val {
    lo: 3,
    hi: 9,
    low_bits: 0,
    origin: Some(Origin::A),
};

const KNOWN_A: Val = Val { hi: 3, ..A };

const THREE: Val = Val {
    origin: None,
    ..KNOWN_A
};

const ZERO: Val = Val {
    lo: 0,
    hi: 0,
    low_bits: 0,
    origin: None,
};

/// An operation, A before and after it, and Z, N and H; the carry is clear.
const WITH_ITSELF: [(AluOp, Val, Val, bool, bool, bool); 8] = [
    (AluOp::Sub, A, ZERO, true, true, false),
    (AluOp::Cp, A, A, true, true, false),
    (AluOp::Xor, A, ZERO, true, false, false),
    (AluOp::And, A, A, false, false, true),
    (AluOp::Or, A, A, false, false, false),
    // A known A has no origin afterwards, but where CP leaves it.
    (AluOp::And, KNOWN_A, THREE, false, false, true),
    (AluOp::Or, KNOWN_A, THREE, false, false, false),
    (AluOp::Cp, KNOWN_A, KNOWN_A, true, true, false),
];

/// With itself any A is 0 after SUB and XOR, and stays after AND, OR and CP.
#[test]
fn operations_with_a_itself(rt: HostRuntime) {
    for (i, (op, of, val, zero, subtract, half_carry)) in WITH_ITSELF.into_iter().enumerate() {
        let outcome = alu_itself(op, of, with_carry(SET));
        let flags = flags(zero, subtract, half_carry, false);
        assert!(rt; outcome == AbsComputed { val, flags }, "row {i}");
    }
    assert!(rt; alu_itself(AluOp::Add, A, with_carry(SET)).val == from_to(6, 18));
    assert!(rt; alu_itself(AluOp::Adc, A, with_carry(SET)).val == from_to(7, 19));
    assert!(rt; alu_itself(AluOp::Sbc, A, with_carry(SET)).val == ANY);
}

/// A carry, and what CCF makes of it.
const CARRIES: [(May, May); 3] = [(SET, CLEAR), (CLEAR, SET), (EITHER, EITHER)];

/// N and H clear, and this carry.
fn left(carry: May) -> Flg {
    Flg {
        subtract: CLEAR,
        half_carry: CLEAR,
        ..with_carry(carry)
    }
}

/// SCF and CCF leave Z, clear N and H, and set C or turn it round.
#[test]
fn carries_are_set_and_turned(rt: HostRuntime) {
    for (i, (before, after)) in CARRIES.into_iter().enumerate() {
        let set = with_carry(before);
        assert!(rt; complement_carry(set) == left(after), "row {i}");
        assert!(rt; set_carry(set) == left(SET), "row {i}");
    }
}

#[test]
fn flags_go_on_the_stack_and_come_back(rt: HostRuntime) {
    let own = Flg {
        subtract: CLEAR,
        half_carry: SET,
        is_own: true,
        ..with_carry(EITHER)
    };
    let byte = Val {
        origin: Some(Origin::F),
        ..from_to(0x20, 0xB0)
    };
    assert!(rt; flags_val(own) == byte);
    // A byte that isn't known gives any flags; they stay F's own where it was F.
    let any_flags = with_carry(EITHER);
    assert!(rt; flags_of_val(copy_of(Register::B, 0, 255)) == any_flags);
    let own_flags = Flg {
        is_own: true,
        ..any_flags
    };
    assert!(rt; flags_of_val(byte) == own_flags);
    // The low bits of a known byte are dropped.
    assert!(rt; flags_of_val(single(0xBF)) == flags(true, false, true, true));
}
