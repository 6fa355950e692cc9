//! What instructions leave of what is known of several parts of a state together, by the rules of versions 3 and 4: an example is a
//! list of steps, which one function plays.

use crate::facts::KnownFact;
use crate::facts::StateFact::{self, At, Based, Bits, Byte, Compared, Link, Same, Word, Zero};
use gb_domain::pairs::WordPair::{Bc, De, Hl};
use gb_domain::pairs::{ANY_BOUNDS, ANY_PAIRS, Bounds, Other};
use gb_domain::places::StackBytes;
use gb_domain::types::{Rules, Setting, Val};
use gb_ops::machine::Region;
use gb_ops::op::Register::{A, B, C, D, E, H, L};
use gb_ops::op::{AluOp, Indirect, Op, Operand, Pair, Register, Shift, StackPair};
use gb_product::{held_relations, relations_outside, stack_held};
use gb_relations::transfer::relations_after;
use gb_samples::relations::are_same;
use gb_samples::states::{ANY, from_to};
use std::process::Abort;

/// What is known.
type Facts = &'static [StateFact];

/// An instruction, what is known before it, and what is then known together.
#[derive(Clone, Copy)]
pub enum TogetherStep {
    Leaves(Op, Facts, Facts),
    /// By the rules of version 4.
    LeavesWhole(Op, Facts, Facts),
    /// SP has these bounds.
    LeavesWithSp(u16, u16, Op, Facts, Facts),
    /// What is read at HL has these bounds.
    LeavesWithRead(u8, u8, Op, Facts, Facts),
    /// With four items at DFFC to DFFF, by the rules of version 4, or else of version 3.
    LeavesWithItems(bool, Op, Facts, Facts),
    /// So many items are held now, below E000.
    Holds(u8, Facts, Facts),
    /// No item may be a place.
    Outside(Facts, Facts),
}

use TogetherStep::{
    Holds, Leaves, LeavesWhole, LeavesWithItems, LeavesWithRead, LeavesWithSp, Outside,
};

const REGION: Region = Region {
    first: 0xDF00,
    last: 0xDFFF,
};

/// A stack of which no item may be a place.
pub const STACK: StackBytes = StackBytes {
    region: REGION,
    base: 0,
    count: 0,
};

/// The stack of main with so many items, by the rules of version 4, or else of version 3.
fn stack_of(is_whole: bool, count: u8) -> StackBytes {
    let setting = Setting {
        rules: Rules::Extended,
        is_whole,
        is_main: true,
        base: 0xE000,
        entered: ANY_PAIRS,
    };
    stack_held(setting, REGION, count)
}

/// Whether an instruction leaves this known together.
fn leaves(is_whole: bool, op: Op, sp: Bounds, low: Val, before: Facts, after: Facts) -> bool {
    leaves_in(STACK, is_whole, op, sp, low, before, after)
}

fn leaves_in(
    stack: StackBytes,
    is_whole: bool,
    op: Op,
    sp: Bounds,
    low: Val,
    before: Facts,
    after: Facts,
) -> bool {
    let known = KnownFact::new(before);
    let left = relations_after(
        Rules::Extended,
        is_whole,
        stack,
        op,
        sp,
        &known.registers,
        low,
        &known.relations,
    );
    are_same(&left, &KnownFact::new(after).relations)
}

/// Whether a step comes out so.
fn agrees(step: &TogetherStep) -> bool {
    match *step {
        Leaves(op, before, after) => leaves(false, op, ANY_BOUNDS, ANY, before, after),
        LeavesWhole(op, before, after) => leaves(true, op, ANY_BOUNDS, ANY, before, after),
        LeavesWithSp(first, last, op, before, after) => {
            leaves(false, op, Bounds { first, last }, ANY, before, after)
        }
        LeavesWithRead(lo, hi, op, before, after) => {
            leaves(false, op, ANY_BOUNDS, from_to(lo, hi), before, after)
        }
        LeavesWithItems(is_whole, op, before, after) => {
            let stack = stack_of(is_whole, 4);
            leaves_in(stack, is_whole, op, ANY_BOUNDS, ANY, before, after)
        }
        Holds(count, before, after) => {
            let known = KnownFact::new(before).relations;
            let left = held_relations(stack_of(true, count), &known);
            are_same(&left, &KnownFact::new(after).relations)
        }
        Outside(before, after) => {
            let known = KnownFact::new(before).relations;
            let left = relations_outside(REGION, &known);
            are_same(&left, &KnownFact::new(after).relations)
        }
    }
}

/// Plays steps.
pub fn play(rt: &impl Abort, steps: &[TogetherStep]) {
    for (i, step) in steps.iter().enumerate() {
        assert!(rt; agrees(step), "step {i}");
    }
}

const IN_A: Operand = Operand::Register(A);

const IN_B: Operand = Operand::Register(B);

const IN_C: Operand = Operand::Register(C);

const IN_D: Operand = Operand::Register(D);

const IN_E: Operand = Operand::Register(E);

const IN_H: Operand = Operand::Register(H);

const IN_L: Operand = Operand::Register(L);

const OF_A: Other = Other::Register(A);

const OF_B: Other = Other::Register(B);

const OF_C: Other = Other::Register(C);

const OF_E: Other = Other::Register(E);

const OF_BC: Other = Other::Pair(Bc);

const OF_DE: Other = Other::Pair(De);

const OF_HL: Other = Other::Pair(Hl);

/// Factors below 0.
const LESS_ONE: u16 = 0xFFFF;

const LESS_TWO: u16 = 0xFFFE;

const LESS_THREE: u16 = 0xFFFD;

/// What is written is forgotten.
const FORGOTTEN: &[TogetherStep] = &[
    // B leaves the places; BC loses what is known of it, and so do links that read B or BC.
    Leaves(
        Op::LoadImmediate(IN_B, 7),
        &[
            Same(&[A, B]),
            Compared(5),
            Zero(Bc),
            Word(Bc, 0x1000, 0x2000),
            Link(Bc, 1, Other::Pair(De), 0x0100),
            Word(De, 0x0000, 0x7FFF),
            Link(De, 1, OF_B, 0x0300),
            Link(Hl, 1, Other::Pair(Bc), 0x0400),
        ],
        &[Same(&[A]), Compared(5), Word(De, 0x0000, 0x7FFF)],
    ),
    // Links that read none of both stay.
    Leaves(
        Op::LoadImmediate(IN_C, 7),
        &[
            Link(De, 1, OF_B, 0x0300),
            Link(Hl, LESS_ONE, Other::Pair(De), 0x0400),
            Zero(Hl),
        ],
        &[
            Link(De, 1, OF_B, 0x0300),
            Link(Hl, LESS_ONE, Other::Pair(De), 0x0400),
            Zero(Hl),
        ],
    ),
    // The flags are written, and no register.
    Leaves(
        Op::SetCarry,
        &[Same(&[B]), Bits(0x80), Zero(De), Word(De, 3, 5)],
        &[Same(&[B]), Word(De, 3, 5)],
    ),
    // POP is no copy; the last place ends the test; POP AF writes the flags.
    Leaves(
        Op::Pop(StackPair::De),
        &[Same(&[A, D]), Compared(3), Word(De, 3, 5), Zero(Hl)],
        &[Same(&[A]), Compared(3), Zero(Hl)],
    ),
    Leaves(
        Op::LoadPair(Pair::De, 0x1234),
        &[Same(&[D]), Compared(3)],
        &[],
    ),
    Leaves(
        Op::Pop(StackPair::Af),
        &[Same(&[A, B]), Compared(3), Zero(Hl), Word(Hl, 3, 5)],
        &[Same(&[B]), Word(Hl, 3, 5)],
    ),
    // Stores that may reach the address, and one that can't.
    Leaves(
        Op::StoreSp(0xC122),
        &[Same(&[A]), At(0xC123), Compared(4)],
        &[Same(&[A]), Compared(4)],
    ),
    Leaves(
        Op::LoadImmediate(Operand::AtHl, 7),
        &[At(0xC123), Compared(4), Word(Hl, 0xC100, 0xC1FF)],
        &[Word(Hl, 0xC100, 0xC1FF)],
    ),
    Leaves(
        Op::Set(0, Operand::AtHl),
        &[At(0xC123), Compared(4), Word(Hl, 0xC124, 0xC1FF)],
        &[At(0xC123), Compared(4), Word(Hl, 0xC124, 0xC1FF)],
    ),
    Leaves(
        Op::StoreA(Indirect::Bc),
        &[Same(&[A]), At(0xC123), Compared(2)],
        &[Same(&[A]), Compared(2)],
    ),
];

/// Steps of pairs and of registers.
const MOVED: &[TogetherStep] = &[
    // Bounds and sums move by one; bounds come from the bytes too.
    Leaves(
        Op::IncrementPair(Pair::Bc),
        &[
            Word(Bc, 0x0010, 0x0020),
            Link(Bc, 1, Other::Register(A), 0x0100),
        ],
        &[
            Word(Bc, 0x0011, 0x0021),
            Link(Bc, 1, Other::Register(A), 0x0101),
        ],
    ),
    Leaves(
        Op::IncrementPair(Pair::Bc),
        &[Byte(B, 0x03, 0x04), Byte(C, 0x10, 0xFF)],
        &[Word(Bc, 0x0311, 0x0500)],
    ),
    // Of what may go round no bounds are left, but links stay; what a link reads moves its sum by the factor.
    Leaves(
        Op::IncrementPair(Pair::De),
        &[
            Word(De, 0xFF00, 0xFFFF),
            Link(Bc, LESS_TWO, Other::Pair(De), 0x1000),
        ],
        &[Link(Bc, LESS_TWO, Other::Pair(De), 0x0FFE)],
    ),
    Leaves(
        Op::DecrementPair(Pair::Bc),
        &[Word(Bc, 0x0000, 0x0005), Link(Bc, 1, OF_HL, 0x0000)],
        &[Link(Bc, 1, OF_HL, 0xFFFF)],
    ),
    // A link with itself, and one that reads a byte of the pair, are forgotten; so are its bytes as places, and its zero.
    Leaves(
        Op::DecrementPair(Pair::Hl),
        &[
            Same(&[H, A]),
            Compared(1),
            Zero(Hl),
            Word(Hl, 0xC001, 0xC010),
            Link(Hl, 1, OF_HL, 0x4000),
            Link(De, 1, Other::Register(L), 0x0005),
        ],
        &[Same(&[A]), Compared(1), Word(Hl, 0xC000, 0xC00F)],
    ),
    // HL counts behind the access.
    Leaves(
        Op::LoadA(Indirect::HlIncrement),
        &[
            Same(&[A, E]),
            Compared(1),
            Word(Hl, 0xC000, 0xC0FF),
            Link(Hl, 1, OF_B, 0xC100),
            Link(De, 1, Other::Register(A), 0x0007),
        ],
        &[
            Same(&[E]),
            Compared(1),
            Word(Hl, 0xC001, 0xC100),
            Link(Hl, 1, OF_B, 0xC101),
        ],
    ),
    Leaves(
        Op::StoreA(Indirect::HlDecrement),
        &[Word(Hl, 0xC123, 0xC123), Link(Hl, 1, OF_B, 0xC125)],
        &[
            Same(&[A]),
            At(0xC123),
            Word(Hl, 0xC122, 0xC122),
            Link(Hl, 1, OF_B, 0xC124),
        ],
    ),
    // A low byte moves its pair by one, a high one by 256, where no value goes round: links with the pair or its own bytes
    // stay. Z then says whether the register is 0.
    Leaves(
        Op::Increment(IN_C),
        &[
            Byte(C, 0x00, 0xFE),
            Zero(Bc),
            Word(Bc, 0x0010, 0x0020),
            Link(Bc, 1, OF_C, 0x0100),
            Link(Hl, LESS_THREE, OF_C, 0x0010),
        ],
        &[
            Same(&[C]),
            Bits(0xFF),
            Word(Bc, 0x0011, 0x0021),
            Link(Bc, 1, OF_C, 0x0102),
            Link(Hl, LESS_THREE, OF_C, 0x000D),
        ],
    ),
    Leaves(
        Op::Increment(IN_B),
        &[Byte(B, 0x00, 0xFE), Link(De, 2, Other::Pair(Bc), 0x0000)],
        &[
            Same(&[B]),
            Bits(0xFF),
            Word(Bc, 0x0100, 0xFFFF),
            Link(De, 2, Other::Pair(Bc), 0x0200),
        ],
    ),
    Leaves(
        Op::Decrement(IN_D),
        &[
            Byte(D, 0x01, 0xFF),
            Word(De, 0x0200, 0x0300),
            Link(De, 1, Other::Pair(De), 0x1000),
        ],
        &[
            Same(&[D]),
            Bits(0xFF),
            Word(De, 0x0100, 0x0200),
            Link(De, 1, Other::Pair(De), 0x0E00),
        ],
    ),
    // It may go round: all is forgotten that reads it.
    Leaves(
        Op::Increment(IN_C),
        &[
            Word(Bc, 0x0010, 0x0020),
            Link(Bc, 1, Other::Register(A), 0x0100),
            Link(De, 1, Other::Pair(Bc), 0x0300),
            Link(Hl, 1, OF_B, 0x0010),
        ],
        &[Same(&[C]), Bits(0xFF), Link(Hl, 1, OF_B, 0x0010)],
    ),
    Leaves(
        Op::Decrement(IN_L),
        &[Byte(L, 0x00, 0x05), Word(Hl, 0xC000, 0xC005)],
        &[Same(&[L]), Bits(0xFF)],
    ),
];

/// Words that are added to HL.
const ADDED: &[TogetherStep] = &[
    // A single word is a step of HL.
    Leaves(
        Op::AddHl(Pair::De),
        &[
            Same(&[A, L]),
            Compared(3),
            Byte(D, 0x01, 0x01),
            Byte(E, 0x00, 0x00),
            Word(Hl, 0x1000, 0x2000),
            Link(Hl, 1, OF_B, 0x3000),
            Link(Bc, LESS_ONE, OF_HL, 0x0005),
        ],
        &[
            Same(&[A]),
            Word(Hl, 0x1100, 0x2100),
            Link(Hl, 1, OF_B, 0x3100),
            Link(Bc, LESS_ONE, OF_HL, 0xFF05),
        ],
    ),
    // Of one of several words only the sums' bounds are known: where none goes round, and where all do.
    Leaves(
        Op::AddHl(Pair::De),
        &[
            Word(De, 0x0000, 0x0FFF),
            Word(Hl, 0x1000, 0x2000),
            Link(Hl, 1, OF_B, 0x3000),
            Link(Bc, 1, OF_HL, 0x0005),
            Link(De, 1, Other::Register(L), 0x0005),
        ],
        &[Word(De, 0x0000, 0x0FFF), Word(Hl, 0x1000, 0x2FFF)],
    ),
    Leaves(
        Op::AddHl(Pair::Bc),
        &[Word(Bc, 0x1000, 0x2000), Word(Hl, 0xF000, 0xF100)],
        &[Word(Bc, 0x1000, 0x2000), Word(Hl, 0x0000, 0x1100)],
    ),
    Leaves(
        Op::AddHl(Pair::Bc),
        &[Word(Bc, 0x0800, 0x1000), Word(Hl, 0xF000, 0xF800)],
        &[Word(Bc, 0x0800, 0x1000)],
    ),
    // HL with itself is no step.
    Leaves(
        Op::AddHl(Pair::Hl),
        &[Word(Hl, 0x1234, 0x1234), Link(Hl, 1, OF_B, 0x3000)],
        &[Word(Hl, 0x2468, 0x2468)],
    ),
    // SP, where it is known and where it isn't.
    LeavesWithSp(
        0xDFED,
        0xDFED,
        Op::AddHl(Pair::Sp),
        &[Word(Hl, 0x0002, 0x0004), Link(Hl, 1, OF_C, 0x0000)],
        &[Word(Hl, 0xDFEF, 0xDFF1), Link(Hl, 1, OF_C, 0xDFED)],
    ),
    Leaves(
        Op::AddHl(Pair::Sp),
        &[Word(Hl, 0x0002, 0x0004), Link(Hl, 1, OF_C, 0x0000)],
        &[],
    ),
];

/// HL is C100, and BC is up to 000F.
const AT_C100: Facts = &[Word(Hl, 0xC100, 0xC100), Word(Bc, 0x0000, 0x000F)];

/// Words that are added to a known HL, by the rules of version 4.
const ADDED_WHOLE: &[TogetherStep] = &[
    // The word's link goes to HL, with its base.
    LeavesWhole(
        Op::AddHl(Pair::Bc),
        &[
            Word(Hl, 0xC100, 0xC100),
            Word(Bc, 0x0000, 0x000F),
            Link(Bc, 1, OF_A, 0x0010),
        ],
        &[
            Word(Bc, 0x0000, 0x000F),
            Link(Bc, 1, OF_A, 0x0010),
            Word(Hl, 0xC100, 0xC10F),
            Link(Hl, 1, OF_A, 0xC110),
        ],
    ),
    LeavesWhole(
        Op::AddHl(Pair::De),
        &[
            Word(Hl, 0xFFF0, 0xFFF0),
            Word(De, 0x0010, 0x001F),
            Based(De, 1, Other::Nothing, Bc, 0x0018, 7),
        ],
        &[
            Word(De, 0x0010, 0x001F),
            Based(De, 1, Other::Nothing, Bc, 0x0018, 7),
            Word(Hl, 0x0000, 0x000F),
            Based(Hl, 1, Other::Nothing, Bc, 0x0008, 7),
        ],
    ),
    // It has none, or one that reads L or HL: HL - BC is what HL was.
    LeavesWhole(
        Op::AddHl(Pair::Bc),
        AT_C100,
        &[
            Word(Bc, 0x0000, 0x000F),
            Word(Hl, 0xC100, 0xC10F),
            Link(Hl, LESS_ONE, OF_BC, 0xC100),
        ],
    ),
    LeavesWhole(
        Op::AddHl(Pair::Bc),
        &[
            Word(Hl, 0xC100, 0xC100),
            Word(Bc, 0x0000, 0x000F),
            Link(Bc, 1, Other::Register(L), 0x000F),
        ],
        &[
            Word(Bc, 0x0000, 0x000F),
            Word(Hl, 0xC100, 0xC10F),
            Link(Hl, LESS_ONE, OF_BC, 0xC100),
        ],
    ),
    LeavesWhole(
        Op::AddHl(Pair::Bc),
        &[
            Word(Hl, 0xC100, 0xC100),
            Word(Bc, 0x0000, 0x000F),
            Link(Bc, LESS_ONE, OF_HL, 0x3F00),
        ],
        &[
            Word(Bc, 0x0000, 0x000F),
            Word(Hl, 0xC100, 0xC10F),
            Link(Hl, LESS_ONE, OF_BC, 0xC100),
        ],
    ),
    // HL's own link, and others that read it, are forgotten.
    LeavesWhole(
        Op::AddHl(Pair::Bc),
        &[
            Word(Hl, 0xC100, 0xC100),
            Link(Hl, 1, OF_E, 0xC200),
            Link(De, 1, OF_HL, 0x0005),
        ],
        &[Link(Hl, LESS_ONE, OF_BC, 0xC100)],
    ),
    // A known word is a step, as in version 3.
    LeavesWhole(
        Op::AddHl(Pair::Bc),
        &[
            Word(Hl, 0xC100, 0xC100),
            Link(Hl, 1, OF_A, 0xC200),
            Word(Bc, 0x0100, 0x0100),
            Link(Bc, 1, OF_E, 0x0200),
        ],
        &[
            Word(Hl, 0xC200, 0xC200),
            Link(Hl, 1, OF_A, 0xC300),
            Word(Bc, 0x0100, 0x0100),
            Link(Bc, 1, OF_E, 0x0200),
        ],
    ),
    // HL isn't known, or is added itself, or SP is; and the rules of version 3.
    LeavesWhole(
        Op::AddHl(Pair::Bc),
        &[
            Word(Hl, 0xC100, 0xC101),
            Word(Bc, 0x0000, 0x000F),
            Link(Bc, 1, OF_A, 0x0010),
        ],
        &[
            Word(Bc, 0x0000, 0x000F),
            Link(Bc, 1, OF_A, 0x0010),
            Word(Hl, 0xC100, 0xC110),
        ],
    ),
    LeavesWhole(
        Op::AddHl(Pair::Hl),
        &[Word(Hl, 0x1234, 0x1234), Link(Hl, 1, OF_B, 0x3000)],
        &[Word(Hl, 0x2468, 0x2468)],
    ),
    LeavesWhole(Op::AddHl(Pair::Sp), &[Word(Hl, 0x0002, 0x0002)], &[]),
    Leaves(
        Op::AddHl(Pair::Bc),
        AT_C100,
        &[Word(Bc, 0x0000, 0x000F), Word(Hl, 0xC100, 0xC10F)],
    ),
];

/// Bytes that are copied.
const COPIED: &[TogetherStep] = &[
    // From a place: to becomes one, with the test; its pair is written all the same. One address replaces another.
    Leaves(
        Op::Load(IN_B, IN_A),
        &[Same(&[A]), Compared(7), Zero(Bc), Word(Bc, 3, 5)],
        &[Same(&[A, B]), Compared(7)],
    ),
    Leaves(
        Op::StoreAbsolute(0xC123),
        &[Same(&[A, D]), At(0xC000), Bits(3)],
        &[Same(&[A, D]), At(0xC123), Bits(3)],
    ),
    Leaves(
        Op::LoadAbsolute(0xC123),
        &[Same(&[E]), At(0xC123), Compared(1)],
        &[Same(&[A, E]), At(0xC123), Compared(1)],
    ),
    // The echo of work RAM.
    Leaves(
        Op::LoadAbsolute(0xE123),
        &[Same(&[E]), At(0xC123), Compared(1)],
        &[Same(&[A, E]), At(0xC123), Compared(1)],
    ),
    // From no place: A takes it; another takes it where there is no test, and A is the source or one place is left.
    Leaves(
        Op::Load(IN_A, IN_B),
        &[Same(&[C, D]), Compared(9)],
        &[Same(&[A, B])],
    ),
    Leaves(
        Op::Load(IN_D, IN_E),
        &[Same(&[B, D]), Compared(9)],
        &[Same(&[B]), Compared(9)],
    ),
    Leaves(Op::Load(IN_D, IN_E), &[Same(&[B, C])], &[Same(&[B, C])]),
    Leaves(Op::Load(IN_D, IN_A), &[Same(&[B, C])], &[Same(&[A, D])]),
    Leaves(Op::Load(IN_D, IN_E), &[Same(&[B])], &[Same(&[D, E])]),
    // D was the last place: the test ends with it.
    Leaves(
        Op::Load(IN_D, IN_E),
        &[Same(&[D]), Compared(9)],
        &[Same(&[D, E])],
    ),
    // A register to itself is nothing.
    Leaves(
        Op::Load(IN_D, IN_D),
        &[
            Same(&[D]),
            Compared(9),
            Zero(De),
            Word(De, 3, 5),
            Link(Hl, 1, Other::Register(D), 0x0100),
        ],
        &[
            Same(&[D]),
            Compared(9),
            Zero(De),
            Word(De, 3, 5),
            Link(Hl, 1, Other::Register(D), 0x0100),
        ],
    ),
    // By addresses that are known: through HL, and of high RAM.
    Leaves(
        Op::Load(Operand::AtHl, IN_D),
        &[Word(Hl, 0xC123, 0xC123)],
        &[Same(&[D]), At(0xC123), Word(Hl, 0xC123, 0xC123)],
    ),
    Leaves(Op::StoreHigh(0x80), &[], &[Same(&[A]), At(0xFF80)]),
    Leaves(
        Op::LoadHighC,
        &[Byte(C, 0x85, 0x85)],
        &[Same(&[A]), At(0xFF85)],
    ),
    // No places: a register of the hardware, the stack region, and one of several addresses.
    Leaves(
        Op::LoadHigh(0x44),
        &[Same(&[A, B]), Compared(3)],
        &[Same(&[B]), Compared(3)],
    ),
    Leaves(
        Op::StoreAbsolute(0xDF80),
        &[Same(&[A, B]), At(0xC000), Compared(3)],
        &[Same(&[A, B]), At(0xC000), Compared(3)],
    ),
    Leaves(
        Op::Load(IN_B, Operand::AtHl),
        &[Same(&[A, B]), Compared(3), Word(Hl, 0xC000, 0xC001)],
        &[Same(&[A]), Compared(3), Word(Hl, 0xC000, 0xC001)],
    ),
];

/// Flags that say something of a byte.
const TESTED: &[TogetherStep] = &[
    // CP with a single operand: of A's places, or of A.
    Leaves(
        Op::AluImmediate(AluOp::Cp, 10),
        &[Same(&[A, B]), Bits(3), Zero(Hl)],
        &[Same(&[A, B]), Compared(10)],
    ),
    Leaves(
        Op::Alu(AluOp::Cp, IN_B),
        &[Same(&[C, D]), Byte(B, 9, 9)],
        &[Same(&[A]), Compared(9)],
    ),
    Leaves(
        Op::Alu(AluOp::Cp, IN_B),
        &[Same(&[A, D]), Compared(9), Byte(B, 8, 9)],
        &[Same(&[A, D])],
    ),
    Leaves(
        Op::Alu(AluOp::Cp, IN_A),
        &[Same(&[A, D]), Compared(9)],
        &[Same(&[A, D])],
    ),
    // A with itself.
    Leaves(
        Op::Alu(AluOp::And, IN_A),
        &[Same(&[A, D])],
        &[Same(&[A, D]), Compared(0)],
    ),
    Leaves(
        Op::Alu(AluOp::Or, IN_A),
        &[Same(&[D])],
        &[Same(&[A]), Compared(0)],
    ),
    Leaves(
        Op::Alu(AluOp::Sub, IN_A),
        &[Same(&[A, D]), Byte(A, 5, 5)],
        &[Same(&[A]), Bits(0xFF)],
    ),
    // SUB and AND of a single operand speak of what A held, where it is held elsewhere.
    Leaves(
        Op::AluImmediate(AluOp::Sub, 5),
        &[Same(&[A, C])],
        &[Same(&[C]), Compared(5)],
    ),
    Leaves(
        Op::AluImmediate(AluOp::Sub, 5),
        &[Same(&[A])],
        &[Same(&[A]), Bits(0xFF)],
    ),
    Leaves(
        Op::AluImmediate(AluOp::And, 0x0F),
        &[Same(&[A]), At(0xC123)],
        &[At(0xC123), Bits(0x0F)],
    ),
    Leaves(
        Op::AluImmediate(AluOp::And, 0x0F),
        &[Same(&[B, C])],
        &[Same(&[A]), Bits(0xFF)],
    ),
    LeavesWithRead(
        0x30,
        0x30,
        Op::Alu(AluOp::And, Operand::AtHl),
        &[Same(&[A, B])],
        &[Same(&[B]), Bits(0x30)],
    ),
    LeavesWithRead(
        0x30,
        0x31,
        Op::Alu(AluOp::And, Operand::AtHl),
        &[Same(&[A, B])],
        &[Same(&[A]), Bits(0xFF)],
    ),
    // Other operations leave whether A is 0; of a pair, where A held its other byte.
    Leaves(
        Op::AluImmediate(AluOp::Sbc, 5),
        &[Same(&[A, C])],
        &[Same(&[A]), Bits(0xFF)],
    ),
    Leaves(
        Op::Alu(AluOp::Or, IN_C),
        &[Same(&[A, B]), Word(Bc, 0, 9)],
        &[Same(&[A]), Bits(0xFF), Zero(Bc), Word(Bc, 0, 9)],
    ),
    Leaves(
        Op::Alu(AluOp::Or, IN_E),
        &[Same(&[A, B]), Zero(Bc)],
        &[Same(&[A]), Bits(0xFF)],
    ),
    // BIT, of a register, and of memory by its address.
    Leaves(
        Op::Bit(7, IN_B),
        &[Same(&[A, B]), Compared(3)],
        &[Same(&[A, B]), Bits(0x80)],
    ),
    Leaves(
        Op::Bit(0, IN_B),
        &[Same(&[A]), Compared(3)],
        &[Same(&[B]), Bits(0x01)],
    ),
    Leaves(
        Op::Bit(1, Operand::AtHl),
        &[Word(Hl, 0xE123, 0xE123)],
        &[At(0xC123), Bits(0x02), Word(Hl, 0xE123, 0xE123)],
    ),
    Leaves(
        Op::Bit(1, Operand::AtHl),
        &[Same(&[A]), Compared(3)],
        &[Same(&[A])],
    ),
    // Counts and shifts, of memory too: known addresses are places, others take the address out.
    Leaves(
        Op::Shift(Shift::Swap, IN_B),
        &[Same(&[A, B]), Compared(3), Zero(Bc), Word(Bc, 3, 5)],
        &[Same(&[B]), Bits(0xFF)],
    ),
    Leaves(
        Op::Decrement(Operand::AtHl),
        &[Same(&[A]), Compared(3), Word(Hl, 0xFF80, 0xFF80)],
        &[At(0xFF80), Bits(0xFF), Word(Hl, 0xFF80, 0xFF80)],
    ),
    Leaves(
        Op::Increment(Operand::AtHl),
        &[Same(&[A]), At(0xC123), Compared(3)],
        &[Same(&[A])],
    ),
    // No test is left.
    Leaves(
        Op::RotateA(Shift::Rlc),
        &[Same(&[A, B]), Compared(3)],
        &[Same(&[B])],
    ),
    Leaves(Op::DecimalAdjust, &[Same(&[A]), Compared(3), Zero(Bc)], &[]),
];

/// A and the newest item of four, which are one byte, compared with 3.
const ITEM_COMPARED: Facts = &[Same(&[A]), At(0xDFFC), Compared(3)];

/// Items as places.
const ITEMS: &[TogetherStep] = &[
    // A load or a store at an item's address, and what the flags say of it.
    LeavesWithItems(
        true,
        Op::Load(IN_A, Operand::AtHl),
        &[Word(Hl, 0xDFFC, 0xDFFC)],
        &[Same(&[A]), At(0xDFFC), Word(Hl, 0xDFFC, 0xDFFC)],
    ),
    LeavesWithItems(
        true,
        Op::StoreAbsolute(0xDFFF),
        &[Same(&[A, B]), At(0xC123)],
        &[Same(&[A, B]), At(0xDFFF)],
    ),
    LeavesWithItems(
        true,
        Op::AluImmediate(AluOp::Cp, 3),
        &[Same(&[A]), At(0xDFFC)],
        ITEM_COMPARED,
    ),
    LeavesWithItems(
        true,
        Op::Decrement(Operand::AtHl),
        &[Word(Hl, 0xDFFD, 0xDFFD)],
        &[At(0xDFFD), Bits(0xFF), Word(Hl, 0xDFFD, 0xDFFD)],
    ),
    // A byte below the items is none, and one that is stored to goes.
    LeavesWithItems(
        true,
        Op::LoadAbsolute(0xDFFB),
        &[Same(&[A, B])],
        &[Same(&[B])],
    ),
    LeavesWithItems(
        true,
        Op::LoadImmediate(Operand::AtHl, 5),
        &[Same(&[A]), At(0xDFFC), Word(Hl, 0xDFFC, 0xDFFD)],
        &[Same(&[A]), Word(Hl, 0xDFFC, 0xDFFD)],
    ),
    // What is pushed goes below the items, and is no copy.
    LeavesWithItems(true, Op::Push(StackPair::Af), ITEM_COMPARED, ITEM_COMPARED),
    // By the rules of version 3 no item is a place.
    LeavesWithItems(
        false,
        Op::LoadAbsolute(0xDFFC),
        &[Same(&[A, B])],
        &[Same(&[B])],
    ),
    // An item stays a place as long as it is held.
    Holds(4, ITEM_COMPARED, ITEM_COMPARED),
    Holds(3, ITEM_COMPARED, &[Same(&[A]), Compared(3)]),
    Holds(3, &[At(0xDFFC), Compared(3)], &[]),
    Holds(0, &[Same(&[A]), At(0xC123)], &[Same(&[A]), At(0xC123)]),
    Outside(ITEM_COMPARED, &[Same(&[A]), Compared(3)]),
    Outside(&[Same(&[A]), At(0xC123)], &[Same(&[A]), At(0xC123)]),
];

/// Pairs that a copy makes equal.
const PAIRS_COPIED: &[TogetherStep] = &[
    // C is L already, so that BC is HL behind LD B,H; what was known of BC is forgotten, and what its link said.
    LeavesWhole(
        Op::Load(IN_B, IN_H),
        &[
            Same(&[C, L]),
            Word(Bc, 0x0003, 0x0005),
            Link(Bc, 1, OF_A, 0x0100),
            Word(Hl, 0xC010, 0xC100),
        ],
        &[
            Same(&[C, L]),
            Word(Bc, 0xC010, 0xC100),
            Link(Bc, LESS_ONE, OF_HL, 0x0000),
            Word(Hl, 0xC010, 0xC100),
        ],
    ),
    // HL is C020 to C1F0 by its bytes, and C010 to C100 as a pair: both hold of BC.
    LeavesWhole(
        Op::Load(IN_B, IN_H),
        &[
            Same(&[C, L]),
            Byte(H, 0xC0, 0xC1),
            Byte(L, 0x20, 0xF0),
            Word(Hl, 0xC010, 0xC100),
        ],
        &[
            Same(&[C, L]),
            Word(Bc, 0xC020, 0xC100),
            Link(Bc, LESS_ONE, OF_HL, 0x0000),
            Word(Hl, 0xC010, 0xC100),
        ],
    ),
    // The low bytes, where the high ones are the same.
    LeavesWhole(
        Op::Load(IN_E, IN_C),
        &[Same(&[A, B, D]), Word(Bc, 0x1234, 0x1300)],
        &[
            Same(&[A, B, D]),
            Word(Bc, 0x1234, 0x1300),
            Word(De, 0x1234, 0x1300),
            Link(De, LESS_ONE, OF_BC, 0x0000),
        ],
    ),
    // HL's link is DE's too, with its base.
    LeavesWhole(
        Op::Load(IN_D, IN_H),
        &[Same(&[E, L]), Link(Hl, 1, OF_A, 0xC100)],
        &[
            Same(&[E, L]),
            Link(De, 1, OF_A, 0xC100),
            Link(Hl, 1, OF_A, 0xC100),
        ],
    ),
    LeavesWhole(
        Op::Load(IN_D, IN_H),
        &[Same(&[E, L]), Based(Hl, 1, Other::Nothing, De, 0x0004, 2)],
        &[
            Same(&[E, L]),
            Based(De, 1, Other::Nothing, De, 0x0004, 2),
            Based(Hl, 1, Other::Nothing, De, 0x0004, 2),
        ],
    ),
    LeavesWhole(
        Op::Load(IN_E, IN_L),
        &[Same(&[D, H]), Link(Hl, 1, Other::Register(L), 0xC100)],
        &[
            Same(&[D, H]),
            Link(De, 1, Other::Register(L), 0xC100),
            Link(Hl, 1, Other::Register(L), 0xC100),
        ],
    ),
    // It reads one of DE's bytes, of which one is written, or DE: then DE - HL = 0000.
    LeavesWhole(
        Op::Load(IN_D, IN_H),
        &[Same(&[E, L]), Link(Hl, 1, OF_E, 0xC100)],
        &[
            Same(&[E, L]),
            Link(De, LESS_ONE, OF_HL, 0x0000),
            Link(Hl, 1, OF_E, 0xC100),
        ],
    ),
    LeavesWhole(
        Op::Load(IN_D, IN_H),
        &[Same(&[E, L]), Link(Hl, 1, Other::Register(D), 0xC100)],
        &[Same(&[E, L]), Link(De, LESS_ONE, OF_HL, 0x0000)],
    ),
    LeavesWhole(
        Op::Load(IN_D, IN_H),
        &[Same(&[E, L]), Based(Hl, 1, OF_DE, Bc, 0xC100, 0)],
        &[Same(&[E, L]), Link(De, LESS_ONE, OF_HL, 0x0000)],
    ),
    // By the rules of version 3 nothing is known of the pair.
    Leaves(
        Op::Load(IN_B, IN_H),
        &[Same(&[C, L]), Word(Hl, 0xC010, 0xC100)],
        &[Same(&[C, L]), Word(Hl, 0xC010, 0xC100)],
    ),
    // Nor where the other bytes aren't the same,
    LeavesWhole(
        Op::Load(IN_B, IN_H),
        &[Same(&[A, C]), Word(Hl, 0xC010, 0xC100)],
        &[Same(&[A, C]), Word(Hl, 0xC010, 0xC100)],
    ),
    // a low byte is copied to a high one,
    LeavesWhole(
        Op::Load(IN_B, IN_L),
        &[Same(&[C, H]), Word(Hl, 0xC010, 0xC100)],
        &[Same(&[C, H]), Word(Hl, 0xC010, 0xC100)],
    ),
    // or both are one register, which stays.
    LeavesWhole(
        Op::Load(IN_H, IN_H),
        &[Same(&[A, L]), Byte(H, 0xC0, 0xC1), Word(Hl, 0x0000, 0xC100)],
        &[Same(&[A, L]), Word(Hl, 0x0000, 0xC100)],
    ),
    // A is in no pair.
    LeavesWhole(
        Op::Load(IN_A, IN_B),
        &[Same(&[C, L]), Word(Bc, 0x1234, 0x1300)],
        &[Same(&[A, B]), Word(Bc, 0x1234, 0x1300)],
    ),
];

#[test]
fn what_is_written_is_forgotten(rt: HostRuntime) {
    play(&rt, FORGOTTEN);
}

#[test]
fn steps_move_bounds_and_links(rt: HostRuntime) {
    play(&rt, MOVED);
    play(&rt, ADDED);
    play(&rt, ADDED_WHOLE);
}

#[test]
fn copies_and_tests_are_known(rt: HostRuntime) {
    play(&rt, COPIED);
    play(&rt, PAIRS_COPIED);
    play(&rt, TESTED);
    play(&rt, ITEMS);
}
