//! What instructions leave of a fact and a fill: the steps of a loop that clears, and what breaks it.

use arrayvec::ArrayVec;
use gb_domain::StridedInterval;
use gb_domain::low_bits::none;
use gb_domain::pairs::{ANY_BOUNDS, Pairs};
use gb_domain::places::OneByte;
use gb_domain::program::Program;
use gb_domain::summary::{BankShadows, Fact, Fill, FillEnd, Reach, Summary};
use gb_domain::types::Val;
use gb_ops::machine::{Kind, Region};
use gb_ops::op::{Indirect, Op, Operand, Pair, Pointer, Register};
use gb_ops::registers::Registers;
use gb_ram_bounds::AddressSet;
use gb_relations::Values;
use gb_summaries::instruction::{InstructionStore, summary_after};
use std::process::Abort;

/// The stack.
const REGION: Region = Region {
    first: 0xDF00,
    last: 0xDFFF,
};

/// The bytes of C000 to CFFF are 0 to 5.
const FACTS: &[Fact] = &[Fact {
    first: 0xC000,
    last: 0xCFFF,
    step: 1,
    value: StridedInterval {
        lo: 0,
        hi: 5,
        count: 0,
    },
}];

const fn from_to(lo: u8, hi: u8) -> Val {
    Val {
        lo,
        hi,
        low_bits: 0,
        origin: None,
    }
}

/// HL is C000 and from the first byte to the second.
fn values(l: (u8, u8)) -> Values {
    let any = from_to(0, 255);
    Values {
        registers: Registers {
            a: any,
            b: any,
            c: any,
            d: any,
            e: any,
            h: from_to(0xC0, 0xC0),
            l: from_to(l.0, l.1),
        },
        pairs: Pairs::default(),
    }
}

/// The last address that is filled if there is no end, else the distance to HL in offset binary; and the greatest byte.
type Left = (u16, Option<u16>, u8);

/// An instruction, what L may be, and the byte that it stores at HL; the level that is left of 1, and what is left of a fill of C000
/// to CFFF with zeros as far as HL.
type SummaryStep = (Op, (u8, u8), Option<u8>, u16, Left);

fn before() -> Summary {
    let mut fills = ArrayVec::new();
    fills.push(Fill {
        first: 0xC000,
        last: 0xCFFF,
        lo: 0,
        hi: 0,
        end: Some(FillEnd {
            pointer: Pointer::Hl,
            reach: Reach::Below,
            offset: 0x8000,
        }),
    });
    Summary::of_parts(1, fills, BankShadows::default(), None)
}

fn stored(l: (u8, u8), byte: Option<u8>) -> InstructionStore {
    let Some(byte) = byte else {
        return InstructionStore::Nothing;
    };
    let addresses = AddressSet {
        first: 0xC000 + u16::from(l.0),
        last: 0xC000 + u16::from(l.1),
        low: none(),
    };
    let value = StridedInterval {
        lo: byte,
        hi: byte,
        count: 0,
    };
    InstructionStore::Byte(addresses, value)
}

fn is_left(summary: &Summary, level: u16, left: Left) -> bool {
    let (last, offset, hi) = left;
    match summary.fills() {
        [fill] => {
            summary.level() == level
                && fill.last == last
                && fill.end.map(|end| end.offset) == offset
                && fill.hi == hi
        }
        _ => false,
    }
}

fn agrees(step: &SummaryStep) -> bool {
    let (op, l, byte, level, left) = *step;
    let after = summary_after(
        &Program {
            is_whole: true,
            kind: Kind::Mbc5,
            facts: FACTS,
        },
        REGION,
        &[],
        op,
        ANY_BOUNDS,
        &values(l),
        &OneByte::default(),
        stored(l, byte),
        &before(),
    );
    is_left(&after, level, left)
}

const STEPS: &[SummaryStep] = &[
    // LD (HL+),A with a zero: one more, and HL moves.
    (
        Op::StoreA(Indirect::HlIncrement),
        (0x10, 0x20),
        Some(0),
        1,
        (0xCFFF, Some(0x8000), 0),
    ),
    // LD (HL),A: one more.
    (
        Op::Load(Operand::AtHl, Operand::Register(Register::A)),
        (0x10, 0x20),
        Some(0),
        1,
        (0xCFFF, Some(0x8001), 0),
    ),
    // 9 breaks the fact, and the fill has it too.
    (
        Op::StoreA(Indirect::HlIncrement),
        (0x10, 0x20),
        Some(9),
        0,
        (0xCFFF, Some(0x8000), 9),
    ),
    // INC HL, and DEC L.
    (
        Op::IncrementPair(Pair::Hl),
        (0x10, 0x20),
        None,
        1,
        (0xCFFF, Some(0x7FFF), 0),
    ),
    (
        Op::Decrement(Operand::Register(Register::L)),
        (0x10, 0x20),
        None,
        1,
        (0xCFFF, Some(0x8001), 0),
    ),
    // INC L of FF: HL is 255 less.
    (
        Op::Increment(Operand::Register(Register::L)),
        (0xFF, 0xFF),
        None,
        1,
        (0xCFFF, Some(0x80FF), 0),
    ),
    // INC L of FE or FF, and LD HL,n16: up to the least HL the fill stays.
    (
        Op::Increment(Operand::Register(Register::L)),
        (0xFE, 0xFF),
        None,
        1,
        (0xC0FD, None, 0),
    ),
    (
        Op::LoadPair(Pair::Hl, 0xC000),
        (0x10, 0x20),
        None,
        1,
        (0xC00F, None, 0),
    ),
];

#[test]
fn summaries_are_as_worked(rt: HostRuntime) {
    for (i, step) in STEPS.iter().enumerate() {
        assert!(rt; agrees(step), "step {i}");
    }
}
