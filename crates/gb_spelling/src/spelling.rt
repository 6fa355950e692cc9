//! The spelling of an instruction.

use crate::names;
use SpelledPart::{
    Added, Bit, By, Byte, Condition, Indirect, Operand, Operation, Pair, Shift, StackPair, Text,
    Word,
};
use gb_effects::arithmetic::displaced;
use gb_ops::op::{self, Op, Row};
use std::fmt;

/// An instruction at its address. It prints as assemblers spell it (RGBDS; Pan Docs: CPU Instruction Set): upper case,
/// numbers in hexadecimal after `$`, displacements from SP in decimal, and a relative jump with the address that it
/// leads to.
#[derive(Clone, Copy)]
pub struct Spelling {
    op: Op,
    /// The address of the next instruction.
    behind: u16,
}

impl Spelling {
    /// The spelling of the instruction of a row, which begins at an address.
    pub fn new(row: Row, address: u16) -> Spelling {
        Spelling {
            op: row.op,
            behind: address.wrapping_add(u16::from(row.length)),
        }
    }
}

impl fmt::Display for Spelling {
    fn fmt<W: fmt::Write>(&self, f: &mut fmt::Formatter<W>) -> fmt::Result {
        for part in &parts(self.op, self.behind) {
            write!(f, "{part}")?;
        }
        Ok(())
    }
}

/// A part of a spelling.
#[derive(Clone, Copy)]
enum SpelledPart {
    Text(&'static str),
    Operand(op::Operand),
    Pair(op::Pair),
    StackPair(op::StackPair),
    Indirect(op::Indirect),
    Condition(op::Condition),
    Operation(op::AluOp),
    Shift(op::Shift),
    /// A byte or an address after `$`.
    Byte(u8),
    Word(u16),
    /// The number of a bit.
    Bit(u8),
    /// A displacement from SP: of a positive one `By` has no sign, and `Added` has.
    By(u8),
    Added(u8),
}

impl SpelledPart {
    /// The text of a part that isn't a number.
    fn text(self) -> &'static str {
        match self {
            Text(text) => text,
            Operand(operand) => names::operand(operand),
            Pair(pair) => names::pair(pair),
            StackPair(pair) => names::stack_pair(pair),
            Indirect(at) => names::indirect(at),
            Condition(when) => names::condition(when),
            Operation(operation) => names::operation(operation),
            Shift(shift) => names::shift(shift),
            _ => "",
        }
    }
}

impl fmt::Display for SpelledPart {
    fn fmt<W: fmt::Write>(&self, f: &mut fmt::Formatter<W>) -> fmt::Result {
        match *self {
            Byte(byte) => write!(f, "${byte:02X}"),
            Word(word) => write!(f, "${word:04X}"),
            Bit(n) => write!(f, "{n}"),
            By(by) => write!(f, "{}", by.cast_signed()),
            Added(by) => write!(f, "{:+}", by.cast_signed()),
            named => f.write_str(named.text()),
        }
    }
}

/// The parts of a spelling; after the last they are empty.
type Parts = [SpelledPart; 4];

fn one(part: SpelledPart) -> Parts {
    two(part, Text(""))
}

fn two(first: SpelledPart, second: SpelledPart) -> Parts {
    three(first, second, Text(""))
}

fn three(first: SpelledPart, second: SpelledPart, third: SpelledPart) -> Parts {
    four(first, second, third, Text(""))
}

fn four(first: SpelledPart, second: SpelledPart, third: SpelledPart, fourth: SpelledPart) -> Parts {
    [first, second, third, fourth]
}

/// Jumps, calls and returns; else the instruction goes to the loads.
fn parts(op: Op, behind: u16) -> Parts {
    match op {
        Op::JumpRelative(to) => two(Text("JR "), Word(displaced(behind, to))),
        Op::JumpRelativeIf(when, to) => four(
            Text("JR "),
            Condition(when),
            Text(","),
            Word(displaced(behind, to)),
        ),
        Op::JumpIf(when, to) => four(Text("JP "), Condition(when), Text(","), Word(to)),
        Op::Jump(to) => two(Text("JP "), Word(to)),
        Op::CallIf(when, to) => four(Text("CALL "), Condition(when), Text(","), Word(to)),
        Op::Call(to) => two(Text("CALL "), Word(to)),
        Op::Restart(to) => two(Text("RST "), Byte(to)),
        Op::ReturnIf(when) => two(Text("RET "), Condition(when)),
        _ => load(op),
    }
}

/// Loads, pushes and pops; else the instruction goes to arithmetic.
fn load(op: Op) -> Parts {
    match op {
        Op::Load(to, from) => four(Text("LD "), Operand(to), Text(","), Operand(from)),
        Op::LoadImmediate(to, byte) => four(Text("LD "), Operand(to), Text(","), Byte(byte)),
        Op::LoadPair(to, word) => four(Text("LD "), Pair(to), Text(","), Word(word)),
        Op::StoreA(at) => three(Text("LD "), Indirect(at), Text(",A")),
        Op::LoadA(at) => two(Text("LD A,"), Indirect(at)),
        Op::StoreAbsolute(at) => three(Text("LD ("), Word(at), Text("),A")),
        Op::LoadAbsolute(at) => three(Text("LD A,("), Word(at), Text(")")),
        Op::StoreHigh(at) => three(Text("LDH ($FF00+"), Byte(at), Text("),A")),
        Op::LoadHigh(at) => three(Text("LDH A,($FF00+"), Byte(at), Text(")")),
        Op::StoreSp(at) => three(Text("LD ("), Word(at), Text("),SP")),
        Op::LoadHlSp(by) => two(Text("LD HL,SP"), Added(by)),
        Op::Pop(pair) => two(Text("POP "), StackPair(pair)),
        Op::Push(pair) => two(Text("PUSH "), StackPair(pair)),
        _ => arithmetic(op),
    }
}

/// Arithmetic and bits; else the instruction has no operand to print.
fn arithmetic(op: Op) -> Parts {
    match op {
        Op::Alu(operation, from) => two(Operation(operation), Operand(from)),
        Op::AluImmediate(operation, byte) => two(Operation(operation), Byte(byte)),
        Op::Increment(operand) => two(Text("INC "), Operand(operand)),
        Op::Decrement(operand) => two(Text("DEC "), Operand(operand)),
        Op::IncrementPair(pair) => two(Text("INC "), Pair(pair)),
        Op::DecrementPair(pair) => two(Text("DEC "), Pair(pair)),
        Op::AddHl(pair) => two(Text("ADD HL,"), Pair(pair)),
        Op::AddSp(by) => two(Text("ADD SP,"), By(by)),
        Op::RotateA(shift) => two(Shift(shift), Text("A")),
        Op::Shift(shift, operand) => three(Shift(shift), Text(" "), Operand(operand)),
        Op::Bit(n, operand) => four(Text("BIT "), Bit(n), Text(","), Operand(operand)),
        Op::Reset(n, operand) => four(Text("RES "), Bit(n), Text(","), Operand(operand)),
        Op::Set(n, operand) => four(Text("SET "), Bit(n), Text(","), Operand(operand)),
        _ => one(Text(bare(op))),
    }
}

/// An instruction that names no operand, or always the same.
fn bare(op: Op) -> &'static str {
    match op {
        Op::Stop => "STOP",
        Op::Halt => "HALT",
        Op::DecimalAdjust => "DAA",
        Op::Complement => "CPL",
        Op::SetCarry => "SCF",
        Op::ComplementCarry => "CCF",
        Op::Return => "RET",
        Op::ReturnFromInterrupt => "RETI",
        Op::StoreHighC => "LDH ($FF00+C),A",
        Op::LoadHighC => "LDH A,($FF00+C)",
        Op::LoadSpHl => "LD SP,HL",
        Op::JumpHl => "JP HL",
        Op::DisableInterrupts => "DI",
        Op::EnableInterrupts => "EI",
        Op::Nop => "NOP",
        // All others are printed with their operands.
        _ => "?",
    }
}
