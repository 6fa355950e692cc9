//! The instruction at an address, or why there is none that can be executed.

use crate::cause::{Cause, StackMisuse};
use gb_spelling::Code;
use gb_verify::gb_ops::decode::decode;
use gb_verify::gb_ops::op::{Op, Pair, Row};
use gb_verify::{
    Abs, Program, Rom, Rules, area_end, is_nop_behind, known_bank, known_byte, known_bytes,
    leaves_area,
};

/// What is known in a state of the instruction at an address, for whoever reads it.
pub fn code_at(program: &Program<'_>, rom: &Rom<'_>, state: &Abs, address: u16) -> Code {
    Code::of(
        known_bytes(program, rom, state, address),
        known_byte(program, rom, state, address),
        address,
    )
}

/// The first byte of the instruction at an address that isn't known.
fn unknown_byte(program: &Program<'_>, rom: &Rom<'_>, state: &Abs, address: u16) -> u16 {
    for offset in 0..3u16 {
        let place = address.wrapping_add(offset);
        if known_byte(program, rom, state, place).is_none() {
            return place;
        }
    }
    address
}

/// The instruction at an address, or why it isn't known.
pub fn decoded(
    program: &Program<'_>,
    rom: &Rom<'_>,
    state: &Abs,
    address: u16,
) -> Result<Row, Cause> {
    let opcode = known_byte(program, rom, state, address);
    if leaves_area(address, opcode, area_end(address)) {
        return Err(Cause::Area);
    }
    if known_bank(rom, &state.core().ctl, address).is_none() {
        return Err(Cause::Bank);
    }
    let Some(bytes) = known_bytes(program, rom, state, address) else {
        return Err(Cause::Unreadable {
            byte: unknown_byte(program, rom, state, address),
        });
    };
    match decode(&bytes) {
        Some(row) => Ok(row),
        None => Err(Cause::UndefinedOpcode { opcode: bytes[0] }),
    }
}

/// What an instruction but LD SP,n16 does to the stack that the rules of versions 1 and 2 don't allow.
fn simple_misuse(state: &Abs, op: Op) -> Option<StackMisuse> {
    match op {
        Op::Push(_) | Op::CallIf(_, _) | Op::Call(_) | Op::Restart(_) | Op::Pop(_)
            if !state.core().stack_set => { Some(StackMisuse::NotSet) }
        Op::Pop(_) if state.items().len() < 2 => Some(StackMisuse::PopsReturnWord),
        Op::IncrementPair(Pair::Sp) | Op::DecrementPair(Pair::Sp) | Op::AddSp(_) | Op::LoadSpHl =>
            Some(StackMisuse::Moved),
        _ => None,
    }
}

/// The bytes that an instruction takes off the stack, where it moves SP.
fn bytes_moved(op: Op) -> Option<usize> {
    match op {
        Op::Push(_) | Op::CallIf(_, _) | Op::Call(_) | Op::Restart(_) => Some(0),
        Op::Pop(_) => Some(2),
        Op::IncrementPair(Pair::Sp) => Some(1),
        Op::DecrementPair(Pair::Sp) => Some(0),
        Op::AddSp(e8) => Some(if e8 < 128 { usize::from(e8) } else { 0 }),
        _ => None,
    }
}

/// What is wrong where the stack is put aside: nothing may be pushed or returned to, and SP moves by POP alone, a load.
fn aside_misuse(op: Op) -> Option<StackMisuse> {
    match op {
        Op::Push(_)
        | Op::CallIf(_, _)
        | Op::Call(_)
        | Op::Restart(_)
        | Op::Return
        | Op::ReturnIf(_)
        | Op::ReturnFromInterrupt
        | Op::IncrementPair(Pair::Sp)
        | Op::DecrementPair(Pair::Sp)
        | Op::AddSp(_)
        | Op::EnableInterrupts => Some(StackMisuse::UsedAside),
        _ => None,
    }
}

/// What is wrong with the stack where SP is on it, by the rules of versions 3 and 4, except for LD SP,HL.
fn located_misuse(state: &Abs, op: Op) -> Option<StackMisuse> {
    let bytes = bytes_moved(op)?;
    if !state.core().stack_set {
        Some(StackMisuse::NotSet)
    } else if state.items().len() < bytes {
        Some(StackMisuse::TakesTooMany)
    } else {
        None
    }
}

/// The same, wherever SP is.
fn extended_misuse(state: &Abs, op: Op) -> Option<StackMisuse> {
    if state.summary().aside().is_some() {
        aside_misuse(op)
    } else {
        located_misuse(state, op)
    }
}

fn misuse(rules: Rules, state: &Abs, op: Op) -> Option<StackMisuse> {
    match rules {
        Rules::Simple => simple_misuse(state, op),
        Rules::Extended => extended_misuse(state, op),
    }
}

/// Why a known instruction can't be executed, but for what SP is set to.
pub fn refused(
    rules: Rules,
    program: &Program<'_>,
    rom: &Rom<'_>,
    state: &Abs,
    address: u16,
    op: Op,
) -> Option<Cause> {
    match op {
        Op::Stop => Some(Cause::Stop),
        Op::Halt
            if state.core().ime.off
                && !is_nop_behind(program, rom, state, address, area_end(address)) => {
            Some(Cause::Halt)
        }
        _ => misuse(rules, state, op).map(Cause::Stack),
    }
}
