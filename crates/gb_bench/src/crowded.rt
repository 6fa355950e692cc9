//! A loop of which hundreds of nodes stand at one address, one for each place of a pointer, and a certificate of version 3 for it,
//! each node of which is right.

use crate::calls::put;
use crate::certificates::{ANY, BASE, REGION, node};
use arrayvec::ArrayVec;
use gb_cert::{CertificatePlan, NodePlan, ProcedurePlan, Version, WriteFault, write_certificate};
use gb_domain::pairs::{ANY_BOUNDS, Link, Other, PairFacts, Pairs};
use gb_domain::relations::Relations;
use gb_domain::types::{Abs, Core, Val};
use gb_ops::op::Register;
use gb_ops::registers::Registers;
use std::alloc::{AllocError, Global};

/// LD HL,C010; LD E,16; LD A,0; and in a loop NOP, and JR back to it.
const CODE: [u8; 10] = [0x21, 0x10, 0xC0, 0x1E, 0x10, 0x3E, 0x00, 0x00, 0x18, 0xFD];

/// The values of A: for each there are 256 nodes at the NOP.
const KINDS: u8 = 2;

/// How many nodes there are at the JR for each of them.
const TIMES: u32 = 1_000;

/// HL points to the byte of an array at C000 whose number is in E: HL - E = C000.
const POINTER: Link = Link {
    other: Other::Register(Register::E),
    factor: 0xFFFF,
    base: None,
    sum: 0xC000,
    width: 0,
};

/// At 0100 a jump to 0150, and there the code.
pub fn cartridge() -> [u8; 0x8000] {
    let mut rom = [0; 0x8000];
    put(&mut rom, 0x100, &[0xC3, 0x50, 0x01]);
    put(&mut rom, 0x14D, &[0xE7]);
    put(&mut rom, 0x150, &CODE);
    rom
}

fn known(byte: u8) -> Val {
    Val {
        lo: byte,
        hi: byte,
        low_bits: 0,
        origin: None,
    }
}

/// A core with these values in A and E, a pointer with this low byte, and any value in each other register.
fn pointing(start: Core, a: u8, e: Val, l: Val) -> Core {
    Core {
        registers: Registers {
            a: known(a),
            b: ANY,
            c: ANY,
            d: ANY,
            e,
            h: known(0xC0),
            l,
        },
        ..start
    }
}

/// For each value of A the states with each byte of the array.
fn single_states(alloc: Global, start: Core) -> Result<Vec<Abs>, AllocError> {
    let mut states = Vec::new(alloc);
    for kind in 0..KINDS {
        for number in 0..=255u8 {
            let core = pointing(start, kind, known(number), known(number));
            states.push(Abs::new(core))?;
        }
    }
    Ok(states)
}

/// With a value of A, any byte of the array.
fn anywhere(start: Core, kind: u8) -> Abs {
    let pairs = Pairs {
        hl: PairFacts {
            bounds: ANY_BOUNDS,
            link: Some(POINTER),
        },
        ..Pairs::default()
    };
    Abs::of_parts(
        pointing(start, kind, ANY, ANY),
        ArrayVec::new(),
        ArrayVec::new(),
        Relations {
            pairs,
            ..Relations::default()
        },
    )
}

/// For each value of A the state at the JR.
fn wide_states(alloc: Global, start: Core) -> Result<Vec<Abs>, AllocError> {
    let mut states = Vec::new(alloc);
    for kind in 0..KINDS {
        states.push(anywhere(start, kind))?;
    }
    Ok(states)
}

/// Adds a node at an address for each of some states.
fn push_each<'a>(
    address: u16,
    states: &'a [Abs],
    nodes: &mut Vec<NodePlan<'a>>,
) -> Result<(), AllocError> {
    for state in states {
        nodes.push(node(0, address, state))?;
    }
    Ok(())
}

/// 2,516 nodes, version 3, 512 of them at the NOP: what comes there from each of the 2,000 at the JR is covered by E's values one by
/// one, each of which leaves one of L.
pub fn bytes(alloc: Global, start: Core) -> Result<Vec<u8>, WriteFault> {
    let begun = Abs::new(start);
    let at_array = Core {
        registers: Registers {
            h: known(0xC0),
            l: known(0x10),
            ..start.registers
        },
        ..start
    };
    let pointed = Abs::new(at_array);
    let counted = Abs::new(Core {
        registers: Registers {
            e: known(0x10),
            ..at_array.registers
        },
        ..at_array
    });
    let singles = single_states(alloc, start)?;
    let wide = wide_states(alloc, start)?;
    let main = ProcedurePlan {
        entry: 0,
        base: BASE,
        need: 0,
        ranges: &[],
        kept: &[],
        mark: 0,
        exit: None,
    };
    let mut nodes = Vec::new(alloc);
    nodes.push(node(0, 0x100, &begun))?;
    nodes.push(node(0, 0x150, &begun))?;
    nodes.push(node(0, 0x153, &pointed))?;
    nodes.push(node(0, 0x155, &counted))?;
    push_each(0x157, singles.as_slice(), &mut nodes)?;
    for _ in 0..TIMES {
        push_each(0x158, wide.as_slice(), &mut nodes)?;
    }
    let plan = CertificatePlan {
        version: Version::Three,
        region: REGION,
        facts: &[],
        procedures: &[main],
        nodes: nodes.as_slice(),
    };
    write_certificate(alloc, &plan)
}
