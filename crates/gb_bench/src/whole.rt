//! Code under facts about RAM, and certificates of version 4 for it, each node of which is right. Main clears C000 to CFFF first,
//! and then all of the facts hold.

use crate::calls::{CALLEE, LOOP, any_core, byte_of, push_times, put};
use crate::certificates::{ANY, BASE, FEW, REGION, node};
use arrayvec::ArrayVec;
use gb_cert::{CertificatePlan, NodePlan, ProcedurePlan, Version, WriteFault, write_certificate};
use gb_domain::places::{NO_REGISTER, OneByte, Test};
use gb_domain::relations::Relations;
use gb_domain::types::{Abs, Cell, Core, Origin, Range, Val};
use gb_domain::{BankShadows, Fact, Fill, FillEnd, Reach, StridedInterval, Summary};
use gb_ops::op::Pointer;
use gb_ops::registers::Registers;
use std::alloc::{AllocError, Global};

/// LD HL,C000; XOR A; and in a loop LD (HL+),A; BIT 4,H; JR Z back to the store.
const CLEAR: [u8; 9] = [0x21, 0x00, 0xC0, 0xAF, 0x22, 0xCB, 0x64, 0x28, 0xFB];

/// Where what is cleared begins and ends.
const FIRST: u16 = 0xC000;

const LAST: u16 = 0xCFFF;

/// The greatest byte that a fact leaves.
const GREATEST: u8 = 0x7F;

/// A distance of 0 in offset binary.
const NO_DISTANCE: u16 = 0x8000;

/// The facts under which routines are called, and the last two of their addresses, whose bytes the routine keeps.
const FEW_FACTS: u16 = 64;

const KEPT: [u16; 2] = [0xC03E, 0xC03F];

/// Where straight-line code begins, and how many addresses of it have a node.
const STRAIGHT: u16 = 0x159;

const ADDRESSES: u32 = 0x7FFE - STRAIGHT as u32;

/// Main's nodes before it: the start, the jump, and those of the loop that clears.
const BEFORE: u32 = 7;

/// The first loop that calls, such that no instruction lies on both sides of 4000; where its instructions stand, and how many
/// loops follow one another.
const LOOPS_AT: u16 = 0x163;

const INSTRUCTIONS: [u16; 4] = [0, 2, 5, 6];

const LOOPS: u16 = 4_051;

/// How often each of main's nodes stands there.
const TIMES: u32 = 3;

/// Main's nodes: the jump, LD SP, those of the loop that clears, the jump from there, those of the loops that call, and the last
/// jump.
const MAINS: u32 = 8 + TIMES * (4 * LOOPS as u32 + 1);

/// The states of the loop that clears.
#[derive(Drop)]
struct Clearing {
    begun: Abs,
    pointed: Abs,
    storing: Abs,
    stepped: Abs,
    tested: Abs,
}

fn interval(lo: u8, hi: u8) -> Val {
    Val { lo, hi, ..ANY }
}

/// What lies below HL is cleared.
fn cleared() -> Summary {
    let mut fills = ArrayVec::new();
    let _ = fills.try_push(Fill {
        first: FIRST,
        last: LAST,
        lo: 0,
        hi: 0,
        end: Some(FillEnd {
            pointer: Pointer::Hl,
            reach: Reach::Below,
            offset: NO_DISTANCE,
        }),
    });
    Summary::of_parts(0, fills, BankShadows::default(), None)
}

fn under(level: u16) -> Summary {
    Summary::of_parts(level, ArrayVec::new(), BankShadows::default(), None)
}

/// A core with a zero in A, and these values in H.
fn while_clearing(core: Core, h: Val) -> Core {
    Core {
        registers: Registers {
            a: interval(0, 0),
            h,
            ..core.registers
        },
        ..core
    }
}

fn with_summary(core: Core, relations: Relations, summary: Summary) -> Abs {
    Abs::of_all_parts(core, ArrayVec::new(), ArrayVec::new(), relations, summary)
}

/// The flags have the test of bit 4 of H.
fn bit_of_h() -> Relations {
    let registers = Registers {
        h: true,
        ..NO_REGISTER
    };
    Relations {
        byte: OneByte {
            registers,
            address: None,
            test: Some(Test::Bits(0x10)),
        },
        ..Relations::default()
    }
}

/// The states where any value is in each other register.
fn clearing_states(core: Core) -> Clearing {
    let pointed = Core {
        registers: Registers {
            h: interval(0xC0, 0xC0),
            l: interval(0, 0),
            ..core.registers
        },
        ..core
    };
    let behind = while_clearing(core, interval(0xC0, 0xD0));
    Clearing {
        begun: Abs::new(core),
        pointed: Abs::new(pointed),
        storing: with_summary(
            while_clearing(core, interval(0xC0, 0xCF)),
            Relations::default(),
            cleared(),
        ),
        stepped: with_summary(behind, Relations::default(), cleared()),
        tested: with_summary(behind, bit_of_h(), cleared()),
    }
}

/// Adds the nodes of the loop that clears.
fn push_clearing<'a>(
    at: u16,
    states: &'a Clearing,
    nodes: &mut Vec<NodePlan<'a>>,
) -> Result<(), AllocError> {
    nodes.push(node(0, at, &states.begun))?;
    nodes.push(node(0, at.wrapping_add(3), &states.pointed))?;
    nodes.push(node(0, at.wrapping_add(4), &states.storing))?;
    nodes.push(node(0, at.wrapping_add(5), &states.stepped))?;
    nodes.push(node(0, at.wrapping_add(7), &states.tested))?;
    Ok(())
}

/// So many facts, each of one byte: it is at most 7F.
fn facts(alloc: Global, count: u16) -> Result<Vec<Fact>, AllocError> {
    let mut facts = Vec::new(alloc);
    for number in 0..count {
        let address = FIRST.wrapping_add(number);
        facts.push(Fact {
            first: address,
            last: address,
            step: 1,
            value: StridedInterval {
                lo: 0,
                hi: GREATEST,
                count: 0,
            },
        })?;
    }
    Ok(facts)
}

/// Main, which needs so much stack.
fn main_of(need: u16) -> ProcedurePlan<'static> {
    ProcedurePlan {
        entry: 0,
        base: BASE,
        need,
        ranges: &[],
        kept: &[],
        mark: 0,
        exit: None,
    }
}

/// NOPs behind the loop that clears, and a jump from the end back to the first of them.
pub fn straight_cartridge() -> [u8; 0x8000] {
    let mut rom = [0; 0x8000];
    put(&mut rom, 0x101, &[0xC3, 0x50, 0x01]);
    put(&mut rom, 0x14D, &[0xE7]);
    put(&mut rom, 0x150, &CLEAR);
    put(&mut rom, 0x7FFD, &[0xC3, 0x59, 0x01]);
    rom
}

/// Adds a node for each address of straight-line code, two or three at each.
fn push_straight<'a>(state: &'a Abs, nodes: &mut Vec<NodePlan<'a>>) -> Result<(), AllocError> {
    let thirds = (FEW - BEFORE).saturating_sub(2 * ADDRESSES);
    for place in 0..ADDRESSES {
        let address = STRAIGHT.wrapping_add((place % 0x8000) as u16);
        let times = if place < thirds { 3 } else { 2 };
        push_times(times, node(0, address, state), nodes)?;
    }
    Ok(())
}

/// 65,535 nodes of straight-line code under so many facts.
pub fn straight(alloc: Global, start: Core, count: u16) -> Result<Vec<u8>, WriteFault> {
    let begun = Abs::new(start);
    let any = Core {
        stack_set: start.stack_set,
        ..any_core(start)
    };
    let clearing = clearing_states(any);
    let known = with_summary(any, Relations::default(), under(count));
    let facts = facts(alloc, count)?;
    let mut nodes = Vec::new(alloc);
    nodes.push(node(0, 0x100, &begun))?;
    nodes.push(node(0, 0x101, &begun))?;
    push_clearing(0x150, &clearing, &mut nodes)?;
    push_straight(&known, &mut nodes)?;
    let plan = CertificatePlan {
        version: Version::Four,
        region: REGION,
        facts: facts.as_slice(),
        procedures: &[main_of(0)],
        nodes: nodes.as_slice(),
    };
    write_certificate(alloc, &plan)
}

/// The address of a loop that calls, by its number.
fn loop_at(number: u16) -> u16 {
    LOOPS_AT.wrapping_add(number.wrapping_mul(8))
}

/// LD SP,E000, the loop that clears, a jump to the loops that call, these, and a jump back to the first of them.
pub fn calling_cartridge() -> [u8; 0x8000] {
    let mut rom = [0; 0x8000];
    put(&mut rom, CALLEE, &[0x3C, 0xC9]);
    put(&mut rom, 0x100, &[0xC3, 0x50, 0x01]);
    put(&mut rom, 0x14D, &[0xE7]);
    put(&mut rom, 0x150, &[0x31, 0x00, 0xE0]);
    put(&mut rom, 0x153, &CLEAR);
    put(&mut rom, 0x15C, &[0x18, 0x05]);
    for number in 0..LOOPS {
        put(&mut rom, loop_at(number), &LOOP);
    }
    put(&mut rom, loop_at(LOOPS), &[0xC3, 0x63, 0x01]);
    rom
}

/// The bytes that are kept, each what it was as the routine was entered.
fn kept_cells() -> ArrayVec<Cell, 64> {
    let mut cells = ArrayVec::new();
    for (address, number) in KEPT.iter().zip(0..2u8) {
        let val = Val {
            origin: Some(Origin::Kept(number)),
            ..interval(0, GREATEST)
        };
        let _ = cells.try_push(Cell {
            address: *address,
            val,
        });
    }
    cells
}

/// The routine's state, with its return word on the stack; and its exit's, without.
fn routine_state(core: Core, is_inside: bool) -> Abs {
    let mut items = ArrayVec::new();
    if is_inside {
        let _ = items.try_push(byte_of(Origin::ReturnHigh));
        let _ = items.try_push(byte_of(Origin::ReturnLow));
    }
    Abs::of_all_parts(
        core,
        items,
        kept_cells(),
        Relations::default(),
        under(FEW_FACTS),
    )
}

/// Adds the nodes of the loops that call.
fn push_loops<'a>(state: &'a Abs, nodes: &mut Vec<NodePlan<'a>>) -> Result<(), AllocError> {
    for number in 0..LOOPS {
        for place in INSTRUCTIONS {
            let address = loop_at(number).wrapping_add(place);
            push_times(TIMES, node(0, address, state), nodes)?;
        }
    }
    push_times(TIMES, node(0, loop_at(LOOPS), state), nodes)
}

/// 65,535 nodes of calls, returns and loops under 64 facts; the routine keeps two bytes, and all nodes but main's and one are at
/// its RET.
pub fn calling(alloc: Global, start: Core) -> Result<Vec<u8>, WriteFault> {
    let begun = Abs::new(start);
    let clearing = clearing_states(any_core(start));
    let known = with_summary(any_core(start), Relations::default(), under(FEW_FACTS));
    let called = routine_state(any_core(start), true);
    let exit = routine_state(any_core(start), false);
    let callee = ProcedurePlan {
        entry: MAINS,
        base: 0,
        need: 0,
        ranges: &[Range {
            first: KEPT[0],
            last: KEPT[1],
        }],
        kept: &KEPT,
        mark: 0,
        exit: Some(&exit),
    };
    let facts = facts(alloc, FEW_FACTS)?;
    let mut nodes = Vec::new(alloc);
    nodes.push(node(0, 0x100, &begun))?;
    nodes.push(node(0, 0x150, &begun))?;
    push_clearing(0x153, &clearing, &mut nodes)?;
    nodes.push(node(0, 0x15C, &known))?;
    push_loops(&known, &mut nodes)?;
    nodes.push(node(1, CALLEE, &called))?;
    push_times(FEW - MAINS - 1, node(1, CALLEE + 1, &called), &mut nodes)?;
    let plan = CertificatePlan {
        version: Version::Four,
        region: REGION,
        facts: facts.as_slice(),
        procedures: &[main_of(2), callee],
        nodes: nodes.as_slice(),
    };
    write_certificate(alloc, &plan)
}
