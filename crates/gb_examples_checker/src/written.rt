//! Certificates written from plain values.

use gb_abs::bytes::append_bytes;
use gb_abs::cells::with_cell;
use gb_abs::stack::push;
use gb_cert::{
    Cert, CertificatePlan, NodePlan, NodeRef, ProcedurePlan, ProcedureRef, Version, WriteFault,
    write_certificate,
};
use gb_domain::interval::StridedInterval;
use gb_domain::pairs::WordPair;
use gb_domain::relations::Relations;
use gb_domain::summary::Fact;
use gb_domain::types::{
    Abs, Cell, Core, Ctl, Flg, Halves, ImeSet, KeptBanks, Origin, Range, Rules, Val,
};
use gb_ops::machine::Region;
use gb_ops::op::Register;
use gb_ops::registers::Registers;
use gb_samples::cartridges::{PLAIN, small};
use gb_samples::certificates::{least, least_in_version_2};
use gb_samples::programs::LOOP;
use gb_samples::relations::{are_same, compared};
use gb_samples::states::{ANY, CLEAR, EITHER, SET, copy_of, entered, from_to};
use gb_verify::Rom;
use gb_verify::check::core_at_power_up;
use std::alloc::{AllocError, Global};
use std::test::Fail;

const REGION: Region = Region {
    first: 0xDF00,
    last: 0xDFFF,
};

fn full_registers() -> Registers<Val> {
    Registers {
        a: copy_of(Register::L, 0x10, 0x11),
        b: Val {
            origin: Some(Origin::F),
            ..from_to(0x20, 0x21)
        },
        c: copy_of(Register::A, 0x30, 0x31),
        d: copy_of(Register::B, 0x40, 0x41),
        e: copy_of(Register::C, 0x50, 0x51),
        h: copy_of(Register::D, 0x60, 0x61),
        l: copy_of(Register::E, 0x70, 0x71),
    }
}

/// A core whose parts all differ from one another: all origins but H, which a word has.
fn full() -> Core {
    Core {
        ime: ImeSet {
            off: true,
            pending: false,
            on: true,
        },
        bound: 0x51,
        stack_set: true,
        ctl: Ctl {
            bank_lo: 0x0102,
            bank_hi: 0x01F3,
            second_lo: 0x04,
            second_hi: 0x05,
            gate: EITHER,
            mode: SET,
            kept: KeptBanks::all_or_none(false),
        },
        flags: Flg {
            zero: SET,
            subtract: CLEAR,
            half_carry: EITHER,
            carry: SET,
            is_own: true,
        },
        ie: Val {
            origin: Some(Origin::Ie),
            ..from_to(0x02, 0x1D)
        },
        registers: full_registers(),
    }
}

/// A copy of what H held.
const OF_H: Val = Val {
    lo: 0x80,
    hi: 0x8F,
    low_bits: 0,
    origin: Some(Origin::H),
};

const WORDS: &[Halves] = &[
    Halves {
        high: OF_H,
        low: ANY,
    },
    Halves {
        high: ANY,
        low: OF_H,
    },
];

/// The bytes of these words.
const ITEMS: &[Val] = &[OF_H, ANY, ANY, OF_H];

const CELLS: &[Cell] = &[
    Cell {
        address: 0xC123,
        val: OF_H,
    },
    Cell {
        address: 0xFFFE,
        val: ANY,
    },
];

/// A state: whether its core is the one above, with a test, or a procedure's entry, the words that are pushed, their bytes,
/// and its cells.
struct State {
    is_full: bool,
    words: &'static [Halves],
    items: &'static [Val],
    cells: &'static [Cell],
}

struct PlannedProcedure {
    entry: u32,
    base: u16,
    need: u16,
    ranges: &'static [Range],
    exit: Option<State>,
}

struct PlannedNode {
    procedure: u16,
    address: u16,
    bank: u16,
    state: State,
}

const PROCEDURES: &[PlannedProcedure] = &[
    PlannedProcedure {
        entry: 1,
        base: 0xE000,
        need: 0x0006,
        ranges: &[],
        exit: None,
    },
    PlannedProcedure {
        entry: 2,
        base: 0x0000,
        need: 0x0246,
        ranges: &[
            Range {
                first: 0xC001,
                last: 0xC0FE,
            },
            Range {
                first: 0xFF80,
                last: 0xFF81,
            },
        ],
        exit: Some(State {
            is_full: true,
            words: &[],
            items: &[],
            cells: CELLS,
        }),
    },
];

const NODES: &[PlannedNode] = &[
    PlannedNode {
        procedure: 0,
        address: 0x0038,
        bank: 0x0000,
        state: State {
            is_full: true,
            words: WORDS,
            items: ITEMS,
            cells: &[],
        },
    },
    PlannedNode {
        procedure: 0,
        address: 0x0100,
        bank: 0x0000,
        state: State {
            is_full: false,
            words: &[],
            items: &[],
            cells: CELLS,
        },
    },
    PlannedNode {
        procedure: 1,
        address: 0x4567,
        bank: 0x01F2,
        state: State {
            is_full: true,
            words: WORDS,
            items: ITEMS,
            cells: CELLS,
        },
    },
];

fn core_of(state: &State) -> Core {
    if state.is_full { full() } else { entered() }
}

/// What is known of several parts together.
fn known(state: &State) -> Relations {
    compared(if state.is_full { Some(0x77) } else { None })
}

fn made(plain: &State) -> Abs {
    let mut state = Abs::new(core_of(plain));
    state.set_relations(known(plain));
    for word in plain.words {
        if let Some(above) = push(Rules::Simple, &state, *word) {
            state = above;
        }
    }
    for cell in plain.cells {
        state = with_cell(Rules::Simple, &state, cell.address, cell.val);
    }
    state
}

/// The states of the nodes.
fn states_of_nodes(alloc: Global) -> Result<Vec<Abs>, AllocError> {
    let mut states = Vec::new(alloc);
    for node in NODES {
        states.push(made(&node.state))?;
    }
    Ok(states)
}

/// The states in which procedures return.
fn exits(alloc: Global) -> Result<Vec<Option<Abs>>, AllocError> {
    let mut exits = Vec::new(alloc);
    for procedure in PROCEDURES {
        exits.push(match &procedure.exit {
            Some(state) => Some(made(state)),
            None => None,
        })?;
    }
    Ok(exits)
}

fn procedure_plans(
    alloc: Global,
    exits: &[Option<Abs>],
) -> Result<Vec<ProcedurePlan<'_>>, AllocError> {
    let mut plans = Vec::new(alloc);
    for (procedure, exit) in PROCEDURES.iter().zip(exits) {
        plans.push(ProcedurePlan {
            entry: procedure.entry,
            base: procedure.base,
            need: procedure.need,
            ranges: procedure.ranges,
            kept: &[],
            mark: 0,
            exit: exit.as_ref(),
        })?;
    }
    Ok(plans)
}

fn node_plans(alloc: Global, states: &[Abs]) -> Result<Vec<NodePlan<'_>>, AllocError> {
    let mut plans = Vec::new(alloc);
    for (node, state) in NODES.iter().zip(states) {
        plans.push(NodePlan {
            procedure: node.procedure,
            address: node.address,
            bank: node.bank,
            state,
        })?;
    }
    Ok(plans)
}

/// The certificate of the procedures and the nodes.
fn written(alloc: Global, version: Version) -> Result<Vec<u8>, WriteFault> {
    let exits = exits(alloc)?;
    let states = states_of_nodes(alloc)?;
    let procedures = procedure_plans(alloc, exits.as_slice())?;
    let nodes = node_plans(alloc, states.as_slice())?;
    let plan = CertificatePlan {
        version,
        region: REGION,
        facts: &[],
        procedures: procedures.as_slice(),
        nodes: nodes.as_slice(),
    };
    write_certificate(alloc, &plan)
}

fn is_state(state: &Abs, plain: &State) -> bool {
    *state.core() == core_of(plain)
        && state.items() == plain.items
        && state.cells() == plain.cells
        && are_same(state.relations(), &known(plain))
}

fn is_exit(exit: &Option<Abs>, plain: &Option<State>) -> bool {
    match (exit, plain) {
        (Some(state), Some(plain)) => is_state(state, plain),
        (None, None) => true,
        _ => false,
    }
}

fn is_procedure(read: &ProcedureRef<'_>, procedure: &PlannedProcedure) -> bool {
    read.entry() == procedure.entry
        && read.base() == procedure.base
        && read.need() == procedure.need
        && read.ranges().as_slice() == procedure.ranges
        && is_exit(&read.exit(), &procedure.exit)
}

fn is_node(read: &NodeRef<'_>, node: &PlannedNode) -> bool {
    read.procedure() == node.procedure
        && read.address() == node.address
        && read.bank() == node.bank
        && is_state(&read.state(), &node.state)
}

fn has_procedures(cert: &Cert<'_>) -> bool {
    if cert.procedures() != 2 {
        return false;
    }
    is_procedure(&cert.procedure(0), &PROCEDURES[0])
        && is_procedure(&cert.procedure(1), &PROCEDURES[1])
}

fn has_nodes(cert: &Cert<'_>) -> bool {
    if cert.nodes() != 3 {
        return false;
    }
    is_node(&cert.node(0), &NODES[0])
        && is_node(&cert.node(1), &NODES[1])
        && is_node(&cert.node(2), &NODES[2])
}

const VERSIONS: [(Version, u8); 3] = [(Version::One, 1), (Version::Two, 2), (Version::Three, 3)];

/// Each value is read as it was written.
#[test]
fn what_is_written_is_read(rt: HostRuntime) -> Result<(), Fail> {
    for (version, number) in VERSIONS {
        let bytes = written(rt.alloc(), version)?;
        let cert = Cert::parse(rt.alloc(), &bytes)?;
        assert!(rt; cert.version() == number);
        assert!(rt; cert.region() == REGION, "version {number}");
        assert!(rt; has_procedures(&cert), "version {number}");
        assert!(rt; has_nodes(&cert), "version {number}");
    }
    Ok(())
}

/// Of each thing that has a limit how much there is: all procedures are equal but for main's base, and all states have items of
/// any value, cells, A's origin, and the pair that is 0 where Z is set.
#[derive(Clone, Copy)]
struct Amounts {
    version: Version,
    procedures: usize,
    nodes: usize,
    ranges: usize,
    need: u16,
    entry: u32,
    base: u16,
    items: u8,
    cells: u16,
    origin: Option<Origin>,
    /// A is even.
    is_even: bool,
    zero: Option<WordPair>,
    facts: usize,
    kept: usize,
    mark: u8,
    /// The number of the procedure that all nodes belong to.
    owner: u16,
}

const LEAST: Amounts = Amounts {
    version: Version::One,
    procedures: 1,
    nodes: 1,
    ranges: 0,
    need: 0,
    entry: 0,
    base: 0xE000,
    items: 0,
    cells: 0,
    origin: None,
    is_even: false,
    zero: None,
    facts: 0,
    kept: 0,
    mark: 0,
    owner: 0,
};

const LEAST_IN_VERSION_2: Amounts = Amounts {
    version: Version::Two,
    ..LEAST
};

const LEAST_IN_VERSION_3: Amounts = Amounts {
    version: Version::Three,
    ..LEAST
};

const LEAST_IN_VERSION_4: Amounts = Amounts {
    version: Version::Four,
    ..LEAST
};

/// Amounts at a limit or above it, and what stands against them.
const LIMITS: &[(Amounts, Option<WriteFault>)] = &[
    (
        Amounts {
            procedures: 255,
            ..LEAST
        },
        None,
    ),
    (
        Amounts {
            procedures: 256,
            ..LEAST
        },
        Some(WriteFault::Procedures),
    ),
    (
        Amounts {
            nodes: 65_535,
            ..LEAST
        },
        None,
    ),
    (
        Amounts {
            nodes: 65_536,
            ..LEAST
        },
        Some(WriteFault::Nodes),
    ),
    (
        Amounts {
            nodes: 65_536,
            ..LEAST_IN_VERSION_2
        },
        None,
    ),
    (
        Amounts {
            nodes: 1_048_577,
            ..LEAST_IN_VERSION_2
        },
        Some(WriteFault::Nodes),
    ),
    (Amounts { ranges: 8, ..LEAST }, None),
    (Amounts { ranges: 9, ..LEAST }, Some(WriteFault::Ranges)),
    (
        Amounts {
            need: 8_192,
            ..LEAST
        },
        None,
    ),
    (
        Amounts {
            need: 8_194,
            ..LEAST
        },
        Some(WriteFault::Need),
    ),
    (Amounts { need: 3, ..LEAST }, Some(WriteFault::HalfWord)),
    (
        Amounts {
            entry: 1,
            nodes: 2,
            ..LEAST
        },
        None,
    ),
    (Amounts { entry: 1, ..LEAST }, Some(WriteFault::Entry)),
    (
        Amounts {
            base: 0xDFFE,
            ..LEAST
        },
        Some(WriteFault::Base),
    ),
    (
        Amounts {
            items: 32,
            cells: 32,
            origin: Some(Origin::Ie),
            ..LEAST
        },
        None,
    ),
    (Amounts { items: 1, ..LEAST }, Some(WriteFault::HalfWord)),
    (Amounts { items: 34, ..LEAST }, Some(WriteFault::Items)),
    (Amounts { cells: 33, ..LEAST }, Some(WriteFault::Cells)),
    (
        Amounts {
            zero: Some(WordPair::Hl),
            ..LEAST
        },
        Some(WriteFault::Relations),
    ),
    (
        Amounts {
            origin: Some(Origin::ReturnLow),
            ..LEAST_IN_VERSION_2
        },
        Some(WriteFault::Values),
    ),
    (
        Amounts {
            is_even: true,
            ..LEAST_IN_VERSION_3
        },
        Some(WriteFault::Values),
    ),
    (
        Amounts {
            origin: Some(Origin::MarkLow),
            ..LEAST_IN_VERSION_3
        },
        Some(WriteFault::Values),
    ),
    (
        Amounts {
            need: 8_191,
            base: 0xDFFE,
            items: 255,
            cells: 64,
            origin: Some(Origin::ReturnHigh),
            zero: Some(WordPair::Bc),
            ..LEAST_IN_VERSION_3
        },
        None,
    ),
    (
        Amounts {
            need: 8_193,
            ..LEAST_IN_VERSION_3
        },
        Some(WriteFault::Need),
    ),
    (
        Amounts {
            facts: 1,
            ..LEAST_IN_VERSION_3
        },
        Some(WriteFault::Facts),
    ),
    (
        Amounts {
            kept: 1,
            ..LEAST_IN_VERSION_3
        },
        Some(WriteFault::Kept),
    ),
    (
        Amounts {
            mark: 1,
            ..LEAST_IN_VERSION_3
        },
        Some(WriteFault::Mark),
    ),
    (Amounts { owner: 1, ..LEAST }, Some(WriteFault::Owner)),
    (
        Amounts {
            procedures: 65_535,
            owner: 65_534,
            facts: 4_096,
            mark: 255,
            is_even: true,
            origin: Some(Origin::MarkLow),
            ..LEAST_IN_VERSION_4
        },
        None,
    ),
    (
        Amounts {
            procedures: 65_536,
            ..LEAST_IN_VERSION_4
        },
        Some(WriteFault::Procedures),
    ),
    (
        Amounts {
            facts: 4_097,
            ..LEAST_IN_VERSION_4
        },
        Some(WriteFault::Facts),
    ),
    (
        Amounts {
            kept: 16,
            origin: Some(Origin::Kept(15)),
            ..LEAST_IN_VERSION_4
        },
        None,
    ),
    (
        Amounts {
            kept: 17,
            ..LEAST_IN_VERSION_4
        },
        Some(WriteFault::Kept),
    ),
    (
        Amounts {
            origin: Some(Origin::Kept(16)),
            ..LEAST_IN_VERSION_4
        },
        Some(WriteFault::Values),
    ),
];

/// A node of main at 0100.
fn main_node(state: &Abs) -> NodePlan<'_> {
    NodePlan {
        procedure: 0,
        address: 0x0100,
        bank: 0,
        state,
    }
}

/// A state of these amounts.
fn state_of(amounts: &Amounts) -> Abs {
    let mut core = entered();
    core.registers.a.origin = amounts.origin;
    if amounts.is_even {
        core.registers.a.hi = 254;
        core.registers.a.low_bits = 1;
    }
    let plain = Abs::new(core);
    let mut state = match append_bytes(Rules::Extended, &plain, amounts.items) {
        Some(state) => state,
        None => plain,
    };
    for i in 0..amounts.cells.min(64) {
        state = with_cell(Rules::Extended, &state, 0xC000 + i, ANY);
    }
    state.set_relations(Relations {
        zero: amounts.zero,
        ..Relations::default()
    });
    state
}

const FACT: Fact = Fact {
    first: 0xC000,
    last: 0xC000,
    step: 1,
    value: StridedInterval {
        lo: 0,
        hi: 1,
        count: 0,
    },
};

/// What stands against so many equal procedures and nodes.
fn fault_of(alloc: Global, amounts: &Amounts) -> Result<Option<WriteFault>, AllocError> {
    let ranges = vec![in alloc; Range {
        first: 0xC000,
        last: 0xC000
    }; amounts.ranges]?;
    let kept = vec![in alloc; 0xC000u16; amounts.kept]?;
    let facts = vec![in alloc; FACT; amounts.facts]?;
    let state = state_of(amounts);
    let procedure = ProcedurePlan {
        entry: amounts.entry,
        base: 0,
        need: amounts.need,
        ranges: ranges.as_slice(),
        kept: kept.as_slice(),
        mark: amounts.mark,
        exit: None,
    };
    let mut procedures = vec![in alloc; procedure; amounts.procedures]?;
    if let Some(main) = procedures.first_mut() {
        main.base = amounts.base;
    }
    let node = NodePlan {
        procedure: amounts.owner,
        ..main_node(&state)
    };
    let nodes = vec![in alloc; node; amounts.nodes]?;
    let plan = CertificatePlan {
        version: amounts.version,
        region: REGION,
        facts: facts.as_slice(),
        procedures: procedures.as_slice(),
        nodes: nodes.as_slice(),
    };
    match write_certificate(alloc, &plan) {
        Ok(_) => Ok(None),
        Err(fault) => Ok(Some(fault)),
    }
}

#[test]
fn limits_are_named(rt: HostRuntime) -> Result<(), Fail> {
    for (i, (amounts, fault)) in LIMITS.iter().enumerate() {
        assert!(rt; fault_of(rt.alloc(), amounts)? == *fault, "limit {i}");
    }
    Ok(())
}

/// Whether main's nodes at 0100, 0101 and 0150 in this state are written in these bytes, or memory ran out.
fn is_least(alloc: Global, version: Version, state: &Abs, expected: &[u8]) -> bool {
    let main = ProcedurePlan {
        entry: 0,
        base: 0xE000,
        need: 0,
        ranges: &[],
        kept: &[],
        mark: 0,
        exit: None,
    };
    let first = main_node(state);
    let second = NodePlan {
        address: 0x0101,
        ..first
    };
    let third = NodePlan {
        address: 0x0150,
        ..first
    };
    let plan = CertificatePlan {
        version,
        region: REGION,
        facts: &[],
        procedures: &[main],
        nodes: &[first, second, third],
    };
    match write_certificate(alloc, &plan) {
        Ok(bytes) => bytes.as_slice() == expected,
        Err(fault) => fault == WriteFault::Memory,
    }
}

/// Where an allocation is refused, the answer is that memory ran out and no other.
#[test]
fn is_written_or_wants_memory(rt: HostRuntime) -> Result<(), Fail> {
    let file = small(PLAIN, LOOP);
    let rom = Rom::parse(&file)?;
    let state = Abs::new(core_at_power_up(&rom, REGION));
    assert!(rt; is_least(rt.alloc(), Version::One, &state, &least()));
    assert!(rt; is_least(rt.alloc(), Version::Two, &state, &least_in_version_2()));
    Ok(())
}
