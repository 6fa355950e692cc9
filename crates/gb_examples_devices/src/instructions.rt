//! The opcode table and the effects of instructions.

use gb_effects::arithmetic::{added, adjusted};
use gb_effects::effect::perform;
use gb_ops::decode::decode;
use gb_ops::machine::Write;
use gb_ops::op::{AluOp, Condition, Op, Operand, Register};
use gb_samples::states::{NO_FLAGS, processor};

/// An instruction's bytes; its operation, length and M-cycles, and those where its condition doesn't hold.
type Decoded = ([u8; 3], Option<(Op, u8, u8, u8)>);

const DECODED: [Decoded; 5] = [
    ([0xC3, 0x50, 0x01], Some((Op::Jump(0x0150), 3, 4, 4))),
    (
        [0x28, 0xFE, 0x00],
        Some((Op::JumpRelativeIf(Condition::Zero, 0xFE), 2, 3, 2)),
    ),
    (
        [0x86, 0x00, 0x00],
        Some((Op::Alu(AluOp::Add, Operand::AtHl), 1, 2, 2)),
    ),
    (
        [0xCB, 0x7C, 0x00],
        Some((Op::Bit(7, Operand::Register(Register::H)), 2, 2, 2)),
    ),
    ([0xD3, 0x00, 0x00], None),
];

/// Whether the bytes are an instruction of this row, or none.
fn is_decoded(decoded: &Decoded) -> bool {
    let (bytes, row) = decoded;
    match (decode(bytes), row) {
        (Some(found), Some((op, length, cycles, cycles_not_taken))) => {
            found.op == *op
                && found.length == *length
                && found.cycles == *cycles
                && found.cycles_not_taken == *cycles_not_taken
        }
        (None, None) => true,
        _ => false,
    }
}

#[test]
fn decodes_rows_of_the_table(rt: HostRuntime) {
    for (i, decoded) in DECODED.iter().enumerate() {
        assert!(rt; is_decoded(decoded), "row {i}");
    }
}

/// 245 without a prefix, of which CB is none, and 256 behind CB.
#[test]
fn the_table_has_500_rows(rt: HostRuntime) {
    let mut rows: u32 = 0;
    for opcode in 0..=255 {
        for second in 0..=255 {
            // Behind CB the second byte chooses the row, elsewhere only its first value counts.
            if (opcode == 0xCB || second == 0) && decode(&[opcode, second, 0]).is_some() {
                rows = rows.wrapping_add(1);
            }
        }
    }
    assert!(rt; rows == 500);
}

/// A = 45, ADD A,38, DAA.
#[test]
fn adjusts_a_sum(rt: HostRuntime) {
    let sum = added(0x45, 0x38, 0);
    assert!(rt; sum.value == 0x7D && sum.flags == NO_FLAGS);
    let digits = adjusted(sum.value, sum.flags);
    assert!(rt; digits.value == 0x83 && digits.flags == NO_FLAGS);
}

#[test]
fn calls_in_place(rt: HostRuntime) {
    let mut processor = processor(0x0153, 0xFFFE);
    let outcome = perform(Op::Call(0x0170), &mut processor, 0, 0);
    assert!(rt; outcome.write == Write::Push(0xFFFE, 0x0153));
    assert!(rt; outcome.is_taken);
    assert!(rt; processor.pc == 0x0170 && processor.sp == 0xFFFC);
}
