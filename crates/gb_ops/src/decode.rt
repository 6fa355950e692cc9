//! From bytes to rows of the opcode table.

ghost use Rattle.std.specs.Prelude.{is_none, slice_index, ◌≡◌, ◌<◌, ◌≤◌, Some};
ghost use Rattle.gb_ops.specs.Table.{operand_of, pair_of, stack_pair_of, condition_of, indirect_of, alu_of, shift_of, decoded, is_undefined};
ghost use Rattle.gb_ops.specs.Table as Table;
ghost use Rattle.gb_ops.specs.Fields.{low_block, high_block, prefixed_block, unprefixed};

use crate::op::{AluOp, Condition, Indirect, Op, Operand, Pair, Register, Row, Shift, StackPair};

#[inline(always)]
#[tactic(auto, unfolding(crate::specs::Table::operand_of))]
fn operand(field: u8) -> Operand
    requires { field < 8 }
    ensures { result ≡ operand_of field }
{
    match field {
        0 => Operand::Register(Register::B),
        1 => Operand::Register(Register::C),
        2 => Operand::Register(Register::D),
        3 => Operand::Register(Register::E),
        4 => Operand::Register(Register::H),
        5 => Operand::Register(Register::L),
        6 => Operand::AtHl,
        _ => Operand::Register(Register::A),
    }
}

#[inline(always)]
#[tactic(auto, unfolding(crate::specs::Table::pair_of))]
fn pair(field: u8) -> Pair
    requires { field < 4 }
    ensures { result ≡ pair_of field }
{
    match field {
        0 => Pair::Bc,
        1 => Pair::De,
        2 => Pair::Hl,
        _ => Pair::Sp,
    }
}

#[inline(always)]
#[tactic(auto, unfolding(crate::specs::Table::stack_pair_of))]
fn stack_pair(field: u8) -> StackPair
    requires { field < 4 }
    ensures { result ≡ stack_pair_of field }
{
    match field {
        0 => StackPair::Bc,
        1 => StackPair::De,
        2 => StackPair::Hl,
        _ => StackPair::Af,
    }
}

#[inline(always)]
#[tactic(auto, unfolding(crate::specs::Table::condition_of))]
fn condition(field: u8) -> Condition
    requires { field < 4 }
    ensures { result ≡ condition_of field }
{
    match field {
        0 => Condition::NotZero,
        1 => Condition::Zero,
        2 => Condition::NotCarry,
        _ => Condition::Carry,
    }
}

#[inline(always)]
#[tactic(auto, unfolding(crate::specs::Table::indirect_of))]
fn indirect(field: u8) -> Indirect
    requires { field < 4 }
    ensures { result ≡ indirect_of field }
{
    match field {
        0 => Indirect::Bc,
        1 => Indirect::De,
        2 => Indirect::HlIncrement,
        _ => Indirect::HlDecrement,
    }
}

#[inline(always)]
#[tactic(auto, unfolding(crate::specs::Table::alu_of))]
fn alu(field: u8) -> AluOp
    requires { field < 8 }
    ensures { result ≡ alu_of field }
{
    match field {
        0 => AluOp::Add,
        1 => AluOp::Adc,
        2 => AluOp::Sub,
        3 => AluOp::Sbc,
        4 => AluOp::And,
        5 => AluOp::Xor,
        6 => AluOp::Or,
        _ => AluOp::Cp,
    }
}

#[inline(always)]
#[tactic(auto, unfolding(crate::specs::Table::shift_of))]
fn shift(field: u8) -> Shift
    requires { field < 8 }
    ensures { result ≡ shift_of field }
{
    match field {
        0 => Shift::Rlc,
        1 => Shift::Rrc,
        2 => Shift::Rl,
        3 => Shift::Rr,
        4 => Shift::Sla,
        5 => Shift::Sra,
        6 => Shift::Swap,
        _ => Shift::Srl,
    }
}

#[inline(always)]
fn row(op: Op, length: u8, cycles: u8) -> Row
    ensures { result ≡ Table.row op length cycles }
{
    Row {
        op,
        length,
        cycles,
        cycles_not_taken: cycles,
    }
}

/// The row of a conditional instruction.
#[inline(always)]
fn either(op: Op, length: u8, cycles: u8, cycles_not_taken: u8) -> Row
    ensures { result ≡ Table.either op length cycles cycles_not_taken }
{
    Row {
        op,
        length,
        cycles,
        cycles_not_taken,
    }
}

/// The M-cycles of an instruction on a field's operand: other ones at (HL).
#[inline(always)]
fn at_hl(field: u8, memory: u8, cycles: u8) -> u8
    ensures { result ≡ Table.at_hl field memory cycles }
{
    if field == 6 { memory } else { cycles }
}

/// The rows 00 to 3F, by the octal digits of the opcode.
#[inline(always)]
fn low_row(y: u8, z: u8, byte: u8, word: u16) -> Row
    requires y_fits { y < 8 }
    requires z_fits { z < 8 }
    ensures { result ≡ low_block y z byte word }
{
    let half = y / 2;
    let is_even = y % 2 == 0;
    match z {
        0 => match y {
            0 => row(Op::Nop, 1, 1),
            1 => row(Op::StoreSp(word), 3, 5),
            2 => row(Op::Stop, 2, 1),
            3 => row(Op::JumpRelative(byte), 2, 3),
            _ => either(Op::JumpRelativeIf(condition(y - 4), byte), 2, 3, 2),
        },
        1 if is_even => row(Op::LoadPair(pair(half), word), 3, 3),
        1 => row(Op::AddHl(pair(half)), 1, 2),
        2 if is_even => row(Op::StoreA(indirect(half)), 1, 2),
        2 => row(Op::LoadA(indirect(half)), 1, 2),
        3 if is_even => row(Op::IncrementPair(pair(half)), 1, 2),
        3 => row(Op::DecrementPair(pair(half)), 1, 2),
        4 => row(Op::Increment(operand(y)), 1, at_hl(y, 3, 1)),
        5 => row(Op::Decrement(operand(y)), 1, at_hl(y, 3, 1)),
        6 => row(Op::LoadImmediate(operand(y), byte), 2, at_hl(y, 3, 2)),
        _ => match y {
            4 => row(Op::DecimalAdjust, 1, 1),
            5 => row(Op::Complement, 1, 1),
            6 => row(Op::SetCarry, 1, 1),
            7 => row(Op::ComplementCarry, 1, 1),
            _ => row(Op::RotateA(shift(y)), 1, 1),
        },
    }
}

/// The rows C0 to FF but CB.
#[inline(always)]
fn high_row(y: u8, z: u8, byte: u8, word: u16) -> Option<Row>
    requires y_fits { y < 8 }
    requires z_fits { z < 8 }
    ensures { result ≡ high_block y z byte word }
{
    let half = y / 2;
    let is_even = y % 2 == 0;
    let row = match z {
        0 => match y {
            4 => row(Op::StoreHigh(byte), 2, 3),
            5 => row(Op::AddSp(byte), 2, 4),
            6 => row(Op::LoadHigh(byte), 2, 3),
            7 => row(Op::LoadHlSp(byte), 2, 3),
            _ => either(Op::ReturnIf(condition(y)), 1, 5, 2),
        },
        1 if is_even => row(Op::Pop(stack_pair(half)), 1, 3),
        1 => match half {
            0 => row(Op::Return, 1, 4),
            1 => row(Op::ReturnFromInterrupt, 1, 4),
            2 => row(Op::JumpHl, 1, 1),
            _ => row(Op::LoadSpHl, 1, 2),
        },
        2 => match y {
            4 => row(Op::StoreHighC, 1, 2),
            5 => row(Op::StoreAbsolute(word), 3, 4),
            6 => row(Op::LoadHighC, 1, 2),
            7 => row(Op::LoadAbsolute(word), 3, 4),
            _ => either(Op::JumpIf(condition(y), word), 3, 4, 3),
        },
        3 => match y {
            0 => row(Op::Jump(word), 3, 4),
            6 => row(Op::DisableInterrupts, 1, 1),
            7 => row(Op::EnableInterrupts, 1, 1),
            _ => return None,
        },
        4 if y < 4 => either(Op::CallIf(condition(y), word), 3, 6, 3),
        4 => return None,
        5 if is_even => row(Op::Push(stack_pair(half)), 1, 4),
        5 if y == 1 => row(Op::Call(word), 3, 6),
        5 => return None,
        6 => row(Op::AluImmediate(alu(y), byte), 2, 2),
        _ => row(Op::Restart(8 * y), 1, 4),
    };
    Some(row)
}

/// The rows behind the prefix CB.
#[inline(always)]
fn prefixed_row(x: u8, y: u8, z: u8) -> Row
    requires y_fits { y < 8 }
    requires z_fits { z < 8 }
    ensures { result ≡ prefixed_block x y z }
{
    let operand = operand(z);
    match x {
        0 => row(Op::Shift(shift(y), operand), 2, at_hl(z, 4, 2)),
        1 => row(Op::Bit(y, operand), 2, at_hl(z, 3, 2)),
        2 => row(Op::Reset(y, operand), 2, at_hl(z, 4, 2)),
        _ => row(Op::Set(y, operand), 2, at_hl(z, 4, 2)),
    }
}

/// All rows but those behind the prefix CB.
#[inline(always)]
fn unprefixed_row(opcode: u8, byte: u8, word: u16) -> Option<Row>
    ensures { result ≡ unprefixed opcode byte word }
{
    let y = opcode / 8 % 8;
    let z = opcode % 8;
    match opcode / 64 {
        0 => Some(low_row(y, z, byte, word)),
        1 if opcode == 0x76 => Some(row(Op::Halt, 1, 1)),
        1 => Some(row(
            Op::Load(operand(y), operand(z)),
            1,
            at_hl(y, 2, at_hl(z, 2, 1)),
        )),
        2 => Some(row(Op::Alu(alu(y), operand(z)), 1, at_hl(z, 2, 1))),
        _ => high_row(y, z, byte, word),
    }
}

/// The row of the opcode table that the bytes begin with, or None where the opcode is undefined.
/// Bytes past the row's length are ignored.
#[inline(always)]
#[tactic(auto, using(crate::proofs::Agree::unprefixed_is, crate::proofs::Agree::prefixed_is, crate::proofs::Agree::undefined_is, crate::proofs::Agree::prefix_is), unfolding(crate::specs::Table::row_of))]
pub fn decode(bytes: &[u8; 3]) -> Option<Row>
    ensures row { result ≡ decoded bytes.now }
    ensures undefined { is_none result ≡ is_undefined (slice_index bytes.now 0) }
{
    let [opcode, low, high] = *bytes;
    if opcode == 0xCB {
        Some(prefixed_row(low / 64, low / 8 % 8, low % 8))
    } else {
        unprefixed_row(opcode, low, u16::from(low) + 256 * u16::from(high))
    }
}
