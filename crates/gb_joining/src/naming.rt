//! By which place a link names the byte that it reads, where several places hold that one byte: by a register that is about to be
//! counted, and by the address in RAM where that is about to be counted, or the register about to be lost. So a loop's counter may be
//! put into RAM and taken out again, and the pointer next to it stays known by it.

use crate::bounds::{WORD_PAIRS, facts_of, set_facts};
use crate::linking::is_half;
use crate::register_set::REGISTERS;
use crate::written::written;
use gb_verify::gb_ops::machine::Region;
use gb_verify::gb_ops::op::{Op, Operand, Register};
use gb_verify::gb_ops::registers::Registers;
use gb_verify::{
    Abs, Link, OneByte, Other, PairFacts, Relations, Val, WordPair, any, cell_at, is_ram,
};

/// The address of the one byte, if it is one of RAM outside the stack region.
fn free_address(region: Region, byte: &OneByte) -> Option<u16> {
    byte.address.filter(|address| {
        is_ram(*address) && !(region.first <= *address && *address <= region.last)
    })
}

/// The first register that holds the one byte.
fn first_register(byte: &OneByte) -> Option<Register> {
    REGISTERS
        .iter()
        .copied()
        .find(|register| byte.registers.get(*register))
}

/// The register that holds the one byte and that an instruction counts.
fn counted(op: Op, byte: &OneByte) -> Option<Register> {
    match op {
        Op::Increment(Operand::Register(register)) | Op::Decrement(Operand::Register(register))
            if byte.registers.get(register) => Some(register),
        _ => None,
    }
}

/// Whether an instruction counts the byte at the address in HL, which is this one.
fn is_counted_at(op: Op, address: u16, registers: &Registers<Val>) -> bool {
    let (high, low) = (registers.h, registers.l);
    matches!(
        op,
        Op::Increment(Operand::AtHl) | Op::Decrement(Operand::AtHl)
    ) && high.lo == high.hi
        && low.lo == low.hi
        && u16::from_be_bytes([high.lo, low.lo]) == address
}

/// Whether an instruction stores at a known address.
fn is_stored(op: Op, address: u16) -> bool {
    match op {
        Op::StoreAbsolute(to) => to == address,
        Op::StoreHigh(to) => u16::from_be_bytes([0xFF, to]) == address,
        _ => false,
    }
}

/// The register by which what stands at the one byte's address is better named before an instruction, if there is one.
fn better_register(op: Op, address: u16, byte: &OneByte) -> Option<Register> {
    if is_stored(op, address) {
        first_register(byte)
    } else {
        counted(op, byte)
    }
}

/// Whether the byte of a register that holds the one byte is better named by the address before an instruction.
fn is_better_address(
    op: Op,
    address: u16,
    byte: &OneByte,
    registers: &Registers<Val>,
    register: Register,
) -> bool {
    let is_lost = counted(op, byte).is_none() && written(op).contains(register);
    is_lost || is_counted_at(op, address, registers)
}

/// What a link reads, by its best name before an instruction.
fn named(op: Op, address: u16, byte: &OneByte, registers: &Registers<Val>, other: Other) -> Other {
    match other {
        Other::Cell(cell) if cell == address => match better_register(op, address, byte) {
            Some(register) => Other::Register(register),
            None => other,
        },
        Other::Register(register)
            if byte.registers.get(register)
                && is_better_address(op, address, byte, registers, register) => {
            Other::Cell(address)
        }
        _ => other,
    }
}

/// Whether a link reads the one byte, which is at the address.
fn reads_byte(address: u16, byte: &OneByte, link: Link) -> bool {
    match link.other {
        Other::Cell(cell) => cell == address,
        Other::Register(register) => byte.registers.get(register),
        Other::Pair(_) | Other::Nothing => false,
    }
}

/// Whether a link reads the byte at an address of RAM, by whatever place.
pub fn is_read(address: u16, relations: &Relations) -> bool {
    let byte = if relations.byte.address == Some(address) {
        relations.byte
    } else {
        OneByte::default()
    };
    WORD_PAIRS.iter().any(|pair| {
        facts_of(*pair, &relations.pairs)
            .link
            .is_some_and(|link| reads_byte(address, &byte, link))
    })
}

/// Whether a state could name what a link reads in two ways.
pub fn may_be_named(region: Region, state: &Abs) -> bool {
    let relations = state.relations();
    let byte = &relations.byte;
    match free_address(region, byte) {
        Some(address) if first_register(byte).is_some() => {
            WORD_PAIRS.iter().any(|pair| {
                facts_of(*pair, &relations.pairs)
                    .link
                    .is_some_and(|link| reads_byte(address, byte, link))
            })
        }
        _ => false,
    }
}

/// Whether it is a register of the pair itself.
fn is_own(pair: WordPair, other: Other) -> bool {
    match other {
        Other::Register(register) => is_half(register, pair),
        Other::Cell(_) | Other::Pair(_) | Other::Nothing => false,
    }
}

/// The links of a state name what they read as is best before an instruction.
pub fn name_places(region: Region, op: Op, state: &mut Abs) {
    let relations = *state.relations();
    let registers = state.core().registers;
    let Some(address) = free_address(region, &relations.byte) else {
        return;
    };
    let mut pairs = relations.pairs;
    for pair in WORD_PAIRS {
        let facts = facts_of(pair, &pairs);
        if let Some(link) = facts.link {
            let other = named(op, address, &relations.byte, &registers, link.other);
            if !is_own(pair, other) {
                let link = Some(Link { other, ..link });
                set_facts(pair, PairFacts { link, ..facts }, &mut pairs);
            }
        }
    }
    state.set_relations(Relations { pairs, ..relations });
}

// ---- copies of pairs

fn is_high(register: Register) -> bool {
    matches!(register, Register::B | Register::D | Register::H)
}

fn is_low(register: Register) -> bool {
    matches!(register, Register::C | Register::E | Register::L)
}

/// The register that an instruction copies to the same half of another pair.
fn half_copied(op: Op) -> Option<Register> {
    match op {
        Op::Load(Operand::Register(to), Operand::Register(from))
            if to != from && (is_high(to) && is_high(from) || is_low(to) && is_low(from)) => {
            Some(from)
        }
        _ => None,
    }
}

/// Whether the one byte is at an address outside the stack of which nothing else is known, and could give way.
pub fn may_give_way(region: Region, state: &Abs) -> bool {
    let relations = state.relations();
    relations.byte.test.is_none()
        && free_address(region, &relations.byte).is_some_and(|address| {
            cell_at(address, state.cells()) == any() && !is_read(address, relations)
        })
}

/// Before a pair is copied by its halves, the one byte's address is forgotten, where nothing else is known of it: else the byte would
/// stand in the way of the first half, and the copied pair would lose its link.
pub fn give_way(op: Op, state: &mut Abs) {
    let relations = *state.relations();
    let byte = relations.byte;
    if half_copied(op).is_some_and(|from| !byte.registers.get(from)) {
        let byte = OneByte {
            address: None,
            ..byte
        };
        state.set_relations(Relations { byte, ..relations });
    }
}
