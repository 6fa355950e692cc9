//! Code that calls, returns and loops, and a certificate of version 3 for it, each node of which is right.

use crate::certificates::{ANY, BASE, FEW, REGION, node};
use arrayvec::ArrayVec;
use gb_cert::{CertificatePlan, NodePlan, ProcedurePlan, Version, WriteFault, write_certificate};
use gb_domain::relations::Relations;
use gb_domain::types::{Abs, Core, Flg, May, Origin, Val};
use gb_ops::registers::Registers;
use std::alloc::{AllocError, Global};

/// LD B,4; CALL 0008; DEC B; JR NZ to the CALL.
pub(crate) const LOOP: [u8; 8] = [0x06, 0x04, 0xCD, 0x08, 0x00, 0x05, 0x20, 0xFA];

/// Where its instructions stand in it.
const INSTRUCTIONS: [u16; 4] = [0, 2, 5, 6];

/// The first loop's address, and how many follow one another.
const FIRST: u16 = 0x153;

const LOOPS: u16 = 4_053;

/// How often each of main's nodes stands.
const TIMES: u32 = 3;

/// Main's addresses: 0100, 0150, those of the loops, and the jump behind them.
const MAINS: u32 = 2 + 4 * LOOPS as u32 + 1;

/// Where the procedure that is called begins: INC A, and behind it RET.
pub(crate) const CALLEE: u16 = 0x08;

/// Any flag.
const EITHER: May = May {
    clear: true,
    set: true,
};

/// Puts bytes into a cartridge, from an address on.
pub(crate) fn put(rom: &mut [u8; 0x8000], at: u16, bytes: &[u8]) {
    for (place, byte) in rom.iter_mut().skip(usize::from(at)).zip(bytes) {
        *place = *byte;
    }
}

/// A jump over the header, LD SP,E000, the loops, and a jump back to the first of them.
pub fn cartridge() -> [u8; 0x8000] {
    let mut rom = [0; 0x8000];
    put(&mut rom, CALLEE, &[0x3C, 0xC9]);
    put(&mut rom, 0x100, &[0xC3, 0x50, 0x01]);
    put(&mut rom, 0x14D, &[0xE7]);
    put(&mut rom, 0x150, &[0x31, 0x00, 0xE0]);
    for number in 0..LOOPS {
        put(&mut rom, loop_at(number), &LOOP);
    }
    put(&mut rom, loop_at(LOOPS), &[0xC3, 0x53, 0x01]);
    rom
}

/// The address of a loop, by its number.
fn loop_at(number: u16) -> u16 {
    FIRST.wrapping_add(number.wrapping_mul(8))
}

/// Any value in each register and flag, the stack set.
pub(crate) fn any_core(start: Core) -> Core {
    Core {
        registers: Registers {
            a: ANY,
            b: ANY,
            c: ANY,
            d: ANY,
            e: ANY,
            h: ANY,
            l: ANY,
        },
        flags: Flg {
            zero: EITHER,
            subtract: EITHER,
            half_carry: EITHER,
            carry: EITHER,
            is_own: false,
        },
        stack_set: true,
        ..start
    }
}

/// A byte of the return word.
pub(crate) fn byte_of(origin: Origin) -> Val {
    Val {
        origin: Some(origin),
        ..ANY
    }
}

/// The state of an entered procedure: the return word is on the stack.
fn entered(core: Core) -> Abs {
    let mut items = ArrayVec::new();
    items.push(byte_of(Origin::ReturnHigh));
    items.push(byte_of(Origin::ReturnLow));
    Abs::of_parts(core, items, ArrayVec::new(), Relations::default())
}

/// Adds the same node so many times.
pub(crate) fn push_times<'a>(
    times: u32,
    plan: NodePlan<'a>,
    nodes: &mut Vec<NodePlan<'a>>,
) -> Result<(), AllocError> {
    for _ in 0..times {
        nodes.push(plan)?;
    }
    Ok(())
}

/// Adds main's nodes.
fn push_mains<'a>(
    start: &'a Abs,
    any: &'a Abs,
    nodes: &mut Vec<NodePlan<'a>>,
) -> Result<(), AllocError> {
    push_times(TIMES, node(0, 0x100, start), nodes)?;
    push_times(TIMES, node(0, 0x150, start), nodes)?;
    for number in 0..LOOPS {
        for place in INSTRUCTIONS {
            let address = loop_at(number).wrapping_add(place);
            push_times(TIMES, node(0, address, any), nodes)?;
        }
    }
    push_times(TIMES, node(0, loop_at(LOOPS), any), nodes)
}

/// 65,535 nodes, version 3: each address of main has three, and all others but one are the callee's at its RET.
pub fn bytes(alloc: Global, start: Core) -> Result<Vec<u8>, WriteFault> {
    let begun = Abs::new(start);
    let any = Abs::new(any_core(start));
    let called = entered(any_core(start));
    let main = ProcedurePlan {
        entry: 0,
        base: BASE,
        need: 2,
        ranges: &[],
        kept: &[],
        mark: 0,
        exit: None,
    };
    let callee = ProcedurePlan {
        entry: TIMES * MAINS,
        base: 0,
        need: 0,
        ranges: &[],
        kept: &[],
        mark: 0,
        exit: Some(&any),
    };
    let mut nodes = Vec::new(alloc);
    push_mains(&begun, &any, &mut nodes)?;
    nodes.push(node(1, CALLEE, &called))?;
    let left = FEW - TIMES * MAINS - 1;
    push_times(left, node(1, CALLEE + 1, &called), &mut nodes)?;
    let plan = CertificatePlan {
        version: Version::Three,
        region: REGION,
        facts: &[],
        procedures: &[main, callee],
        nodes: nodes.as_slice(),
    };
    write_certificate(alloc, &plan)
}
