//! Certificates of many nodes, each with the cartridge that it is for. In all of them each node is right. `Sample` names them.

use crate::{calls, crowded, whole};
use gb_cert::{CertificatePlan, NodePlan, ProcedurePlan, Version, WriteFault, write_certificate};
use gb_domain::types::{Abs, Core, Val};
use gb_ops::machine::Region;
use gb_ops::registers::Registers;
use gb_verify::Rom;
use gb_verify::check::core_at_power_up;
use std::alloc::{AllocError, Global};

/// The nodes of a certificate in version 1, at most.
pub(crate) const FEW: u32 = 65_535;

/// The addresses that have a node in straight-line code: 0000 to 0101, and 0150 to 7FFD.
const ADDRESSES: u32 = 0x102 + 0x7FFE - 0x150;

/// The procedures of the largest certificate, and how many addresses of its main have two nodes.
const PROCEDURES: u16 = 32;

const TWICE: u32 = 1_048_576 - PROCEDURES as u32 * ADDRESSES;

/// The stack region of all of them.
pub(crate) const REGION: Region = Region {
    first: 0xDF00,
    last: 0xDFFF,
};

/// The address above it, which is main's base.
pub(crate) const BASE: u16 = 0xE000;

/// Any byte.
pub(crate) const ANY: Val = Val {
    lo: 0,
    hi: 255,
    low_bits: 0,
    origin: None,
};

/// NOPs, with a jump over the header and one from the end back to behind the header.
fn straight_line() -> [u8; 0x8000] {
    let mut rom = [0; 0x8000];
    rom[0x101] = 0xC3;
    rom[0x102] = 0x50;
    rom[0x103] = 0x01;
    rom[0x14D] = 0xE7;
    rom[0x7FFD] = 0xC3;
    rom[0x7FFE] = 0x50;
    rom[0x7FFF] = 0x01;
    rom
}

/// At 0100 a jump to itself.
fn loop_alone() -> [u8; 0x8000] {
    let mut rom = [0; 0x8000];
    rom[0x100] = 0x18;
    rom[0x101] = 0xFE;
    rom[0x14D] = 0xE7;
    rom
}

/// At 0100 a jump to 0150, there one to 0160, and there one to itself.
fn two_jumps() -> [u8; 0x8000] {
    let mut rom = [0; 0x8000];
    rom[0x100] = 0xC3;
    rom[0x101] = 0x50;
    rom[0x102] = 0x01;
    rom[0x14D] = 0xE7;
    rom[0x150] = 0xC3;
    rom[0x151] = 0x60;
    rom[0x152] = 0x01;
    rom[0x160] = 0x18;
    rom[0x161] = 0xFE;
    rom
}

/// An address of straight-line code, by its number.
fn address_of(place: u32) -> u16 {
    let address = if place < 0x102 {
        place
    } else {
        place % 0x8000 + 0x150 - 0x102
    };
    (address % 0x8000) as u16
}

/// A core with any value in each register but L.
fn wide(start: Core, l: Val) -> Core {
    Core {
        registers: Registers {
            a: ANY,
            b: ANY,
            c: ANY,
            d: ANY,
            e: ANY,
            h: ANY,
            l,
        },
        ..start
    }
}

/// A procedure that needs no stack, writes nothing and doesn't return.
fn procedure(entry: u32, base: u16) -> ProcedurePlan<'static> {
    ProcedurePlan {
        entry,
        base,
        need: 0,
        ranges: &[],
        kept: &[],
        mark: 0,
        exit: None,
    }
}

/// A node in the bank that is shown at its address.
pub(crate) fn node(procedure: u16, address: u16, state: &Abs) -> NodePlan<'_> {
    NodePlan {
        procedure,
        address,
        bank: if address < 0x4000 { 0 } else { 1 },
        state,
    }
}

/// A certificate of main alone.
fn main_alone(
    alloc: Global,
    version: Version,
    entry: u32,
    nodes: &[NodePlan<'_>],
) -> Result<Vec<u8>, WriteFault> {
    let plan = CertificatePlan {
        version,
        region: REGION,
        facts: &[],
        procedures: &[procedure(entry, BASE)],
        nodes,
    };
    write_certificate(alloc, &plan)
}

/// Straight-line code: each address has two or three nodes, all in the same state.
fn straight(alloc: Global, version: Version, start: Core) -> Result<Vec<u8>, WriteFault> {
    let state = Abs::new(start);
    let thirds = FEW - 2 * ADDRESSES;
    let mut nodes = Vec::new(alloc);
    for number in 0..FEW {
        let place = if number < 3 * thirds {
            number / 3
        } else {
            thirds + (number - 3 * thirds) / 2
        };
        nodes.push(node(0, address_of(place), &state))?;
    }
    let entry = 2 * 0x100 + thirds.min(0x100);
    main_alone(alloc, version, entry, nodes.as_slice())
}

/// Adds main's nodes: the first addresses have two.
fn push_mains<'a>(state: &'a Abs, nodes: &mut Vec<NodePlan<'a>>) -> Result<(), AllocError> {
    for place in 0..ADDRESSES {
        nodes.push(node(0, address_of(place), state))?;
        if place < TWICE {
            nodes.push(node(0, address_of(place), state))?;
        }
    }
    Ok(())
}

/// Adds the nodes of a procedure that is called: each address has one.
fn push_below<'a>(
    number: u16,
    state: &'a Abs,
    nodes: &mut Vec<NodePlan<'a>>,
) -> Result<(), AllocError> {
    for place in 0..ADDRESSES {
        nodes.push(node(number, address_of(place), state))?;
    }
    Ok(())
}

/// Straight-line code, version 2, of as many nodes as there may be: in each of 32 procedures the same
/// addresses have one node each, and in main the first of them two. Below main the stack is set.
fn procedures(alloc: Global, start: Core) -> Result<Vec<u8>, WriteFault> {
    let state = Abs::new(start);
    let below = Abs::new(Core {
        stack_set: true,
        ..start
    });
    let mut procedures = Vec::new(alloc);
    let mut nodes = Vec::new(alloc);
    procedures.push(procedure(2 * 0x100, BASE))?;
    push_mains(&state, &mut nodes)?;
    for number in 1..PROCEDURES {
        procedures.push(procedure(TWICE + u32::from(number) * ADDRESSES, 0))?;
        push_below(number, &below, &mut nodes)?;
    }
    let plan = CertificatePlan {
        version: Version::Two,
        region: REGION,
        facts: &[],
        procedures: procedures.as_slice(),
        nodes: nodes.as_slice(),
    };
    write_certificate(alloc, &plan)
}

/// 65,535 nodes at 0100, all in the same state.
fn one_address(alloc: Global, start: Core) -> Result<Vec<u8>, WriteFault> {
    let state = Abs::new(start);
    let mut nodes = Vec::new(alloc);
    for _ in 0..FEW {
        nodes.push(node(0, 0x100, &state))?;
    }
    main_alone(alloc, Version::One, 0, nodes.as_slice())
}

/// For each byte the state with it alone in L, and any value in each other register.
fn single_states(alloc: Global, start: Core) -> Result<Vec<Abs>, AllocError> {
    let mut states = Vec::new(alloc);
    for value in 0..=255u8 {
        let l = Val {
            lo: value,
            hi: value,
            low_bits: 0,
            origin: None,
        };
        states.push(Abs::new(wide(start, l)))?;
    }
    Ok(states)
}

/// Adds nodes at 0150 with the values 0 to 254 in turn, and one with 255.
fn push_singles<'a>(states: &'a [Abs], nodes: &mut Vec<NodePlan<'a>>) -> Result<(), AllocError> {
    for number in 3..FEW {
        if let Some(state) = states.get((number % 255) as usize) {
            nodes.push(node(0, 0x150, state))?;
        }
    }
    if let Some(state) = states.last() {
        nodes.push(node(0, 0x150, state))?;
    }
    Ok(())
}

/// 65,535 nodes, all but two of them at 0150, each with one value in L, and the last alone with 255:
/// what comes from 0100 is covered there by L's values one by one.
fn single_values(alloc: Global, start: Core) -> Result<Vec<u8>, WriteFault> {
    let any = Abs::new(wide(start, ANY));
    let states = single_states(alloc, start)?;
    let mut nodes = Vec::new(alloc);
    nodes.push(node(0, 0x100, &any))?;
    push_singles(states.as_slice(), &mut nodes)?;
    nodes.push(node(0, 0x160, &any))?;
    main_alone(alloc, Version::One, 0, nodes.as_slice())
}

/// A certificate of many nodes, and the cartridge that it is for.
#[derive(Clone, Copy)]
pub enum Sample {
    StraightLine,
    Procedures,
    OneAddress,
    SingleValues,
    StraightLineExtended,
    Calls,
    Crowded,
    StraightLineWhole,
    StraightLineUnderFew,
    StraightLineUnderMany,
    CallsWhole,
}

/// All of them, as they are measured.
pub const SAMPLES: &[Sample] = &[
    Sample::StraightLine,
    Sample::Procedures,
    Sample::OneAddress,
    Sample::SingleValues,
    Sample::StraightLineExtended,
    Sample::Calls,
    Sample::Crowded,
    Sample::StraightLineWhole,
    Sample::StraightLineUnderFew,
    Sample::StraightLineUnderMany,
    Sample::CallsWhole,
];

impl Sample {
    /// What it is.
    pub fn name(self) -> &'static str {
        match self {
            Sample::StraightLine => "65,535 nodes of straight-line code, version 1",
            Sample::Procedures => "1,048,576 nodes of 32 procedures",
            Sample::OneAddress => "65,535 nodes at one address",
            Sample::SingleValues => "65,533 single values at one address",
            Sample::StraightLineExtended => "65,535 nodes of straight-line code, version 3",
            Sample::Calls => "65,535 nodes of calls, returns and loops, version 3",
            Sample::Crowded =>
                "2,516 nodes, 2,000 of them covered by 512 at one address, version 3",
            Sample::StraightLineWhole => "65,535 nodes of straight-line code, version 4",
            Sample::StraightLineUnderFew => {
                "65,535 nodes of straight-line code under 64 facts, version 4"
            }
            Sample::StraightLineUnderMany => {
                "65,535 nodes of straight-line code under 4,096 facts, version 4"
            }
            Sample::CallsWhole => {
                "65,535 nodes of calls, returns and loops under 64 facts, two bytes kept, version 4"
            }
        }
    }

    /// The cartridge.
    pub fn cartridge(self) -> [u8; 0x8000] {
        match self {
            Sample::StraightLine
            | Sample::Procedures
            | Sample::StraightLineExtended
            | Sample::StraightLineWhole => straight_line(),
            Sample::StraightLineUnderFew | Sample::StraightLineUnderMany => {
                whole::straight_cartridge()
            }
            Sample::CallsWhole => whole::calling_cartridge(),
            Sample::OneAddress => loop_alone(),
            Sample::SingleValues => two_jumps(),
            Sample::Calls => calls::cartridge(),
            Sample::Crowded => crowded::cartridge(),
        }
    }

    /// The certificate, for its cartridge.
    pub fn bytes(self, alloc: Global, rom: &Rom<'_>) -> Result<Vec<u8>, WriteFault> {
        let start = core_at_power_up(rom, REGION);
        match self {
            Sample::StraightLine => straight(alloc, Version::One, start),
            Sample::StraightLineExtended => straight(alloc, Version::Three, start),
            Sample::Calls => calls::bytes(alloc, start),
            Sample::Crowded => crowded::bytes(alloc, start),
            Sample::StraightLineWhole => straight(alloc, Version::Four, start),
            Sample::StraightLineUnderFew => whole::straight(alloc, start, 64),
            Sample::StraightLineUnderMany => whole::straight(alloc, start, 4_096),
            Sample::CallsWhole => whole::calling(alloc, start),
            Sample::Procedures => procedures(alloc, start),
            Sample::OneAddress => one_address(alloc, start),
            Sample::SingleValues => single_values(alloc, start),
        }
    }
}
