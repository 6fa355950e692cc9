//! What follows from what is known of several parts of a state together: sides of a branch, values that pairs and links leave, and
//! which states stand for others. An example is a list of steps, which one function plays.

use crate::facts::KnownFact;
use crate::facts::StateFact::{
    self, At, Bits, Byte, Compared, Each, Link, Memory, Same, Wide, Word, Zero,
};
use gb_copies::sides::{PlaceContents, narrowed};
use gb_domain::pairs::WordPair::{Bc, De, Hl};
use gb_domain::pairs::{ANY_BOUNDS, ANY_PAIRS, Bounds, Other, PairBounds};
use gb_domain::types::{Cell, Rules};
use gb_ops::op::Register::{A, B, C, D, E, H};
use gb_ops::op::{Condition, Indirect, Op, Operand, Pair, Register};
use gb_pairs::moved::added;
use gb_pairs::reduced::reduce;
use gb_product::covering::covers;
use gb_product::parts::{Branch, Product};
use gb_product::reduced::reduced;
use gb_product::sides::{not_taken_side, taken_side};
use gb_product::{Program, States, read_in};
use gb_relations::pointers::{known_carry, pointer_bounds};
use gb_samples::relations::are_pairs_same;
use gb_samples::states::ANY;
use std::process::Abort;

/// What is known.
pub type Facts = &'static [StateFact];

#[derive(Clone, Copy)]
pub enum RelatedStep {
    /// A condition, what is known before it, and of registers and memory where it is met, if it can be.
    Meets(Condition, Facts, Option<Facts>),
    /// What is known before a jump on this condition, and once it isn't taken and that is reduced, if it can be.
    Passes(Condition, Facts, Option<Facts>),
    /// An instruction, what is known before it, and the bounds of the address that it takes from a pair.
    Points(Op, Facts, Option<(u16, u16)>),
    /// What is known, and of registers and pairs once it is reduced, if anything is meant.
    Reduces(Facts, Option<Facts>),
    /// What is known before a word in these bounds is added to HL, and the carry, where it is known.
    Carries(u16, u16, Facts, Option<bool>),
    /// What is known of one state and of another, and whether that stands for all that the first does.
    Covers(Facts, Facts, bool),
    /// The same by the rules of version 4.
    CoversWhole(Facts, Facts, bool),
}

use RelatedStep::{Carries, Covers, CoversWhole, Meets, Passes, Points, Reduces};

/// The cell that says this of memory, where it says something.
fn told_cell(known: &KnownFact) -> Option<Cell> {
    let address = known.relations.byte.address?;
    if known.memory == ANY {
        None
    } else {
        Some(Cell {
            address,
            val: known.memory,
        })
    }
}

/// Whether a side leaves this of registers and memory, of which the places are.
fn has_side(side: Option<Branch>, before: Facts, after: Option<Facts>) -> bool {
    match (side, after) {
        (Some(side), Some(after)) => {
            let mut known = KnownFact::new(after);
            known.relations.byte.address = KnownFact::new(before).relations.byte.address;
            side.core.registers == known.registers && side.cell == told_cell(&known)
        }
        (None, None) => true,
        _ => false,
    }
}

/// Whether this is left of registers and memory.
fn has_contents(contents: Option<PlaceContents>, after: Option<Facts>) -> bool {
    match (contents, after) {
        (Some(contents), Some(after)) => {
            let known = KnownFact::new(after);
            contents.registers == known.registers && contents.memory == known.memory
        }
        (None, None) => true,
        _ => false,
    }
}

/// Whether a branch leaves this of registers and memory, and a jump that it is the condition of does of registers.
fn meets(condition: Condition, before: Facts, after: Option<Facts>) -> bool {
    let known = KnownFact::new(before);
    let state = known.state();
    let contents = PlaceContents {
        registers: known.registers,
        memory: known.memory,
    };
    let jump = Op::JumpIf(condition, 0x4000);
    let side = taken_side(jump, known.memory, state.core(), state.relations());
    has_contents(narrowed(&known.relations.byte, condition, &contents), after)
        && has_side(side, before, after)
}

/// What a jump that isn't taken leaves, reduced.
fn passed(condition: Condition, before: Facts) -> Option<Product> {
    let known = KnownFact::new(before);
    let state = known.state();
    let jump = Op::JumpRelativeIf(condition, 5);
    let side = not_taken_side(jump, known.memory, state.core(), state.relations())?;
    reduced(
        Rules::Extended,
        &ANY_PAIRS,
        &ANY_PAIRS,
        &side.core,
        &side.relations,
    )
}

/// Whether a jump that isn't taken leaves this of registers and pairs.
fn passes(condition: Condition, before: Facts, after: Option<Facts>) -> bool {
    match (passed(condition, before), after) {
        (Some(side), Some(after)) => {
            let known = KnownFact::new(after);
            side.core.registers == known.registers
                && are_pairs_same(&side.relations.pairs, &known.relations.pairs)
        }
        (None, None) => true,
        _ => false,
    }
}

/// The carry of ADD HL,DE, by version 3.
fn carry_of_de(known: &KnownFact) -> Option<bool> {
    known_carry(
        Rules::Extended,
        Op::AddHl(Pair::De),
        ANY_BOUNDS,
        &known.registers,
        &known.relations.pairs,
    )
}

/// Whether a word in these bounds is added to HL with this carry; DE is such a word too.
fn carries(first: u16, last: u16, before: Facts, carry: Option<bool>) -> bool {
    let mut known = KnownFact::new(before);
    let sum = added(Bounds { first, last }, false, None, &known.values());
    known.relations.pairs.de.bounds = Bounds { first, last };
    sum.carry == carry && carry_of_de(&known) == carry
}

/// Whether an instruction takes an address within these bounds from a pair; by versions 1 and 2 none is taken.
fn points(op: Op, before: Facts, within: Option<(u16, u16)>) -> bool {
    let known = KnownFact::new(before);
    let (registers, pairs) = (&known.registers, &known.relations.pairs);
    let bounds = pointer_bounds(Rules::Extended, op, registers, pairs);
    bounds.map(|found| (found.first, found.last)) == within
        && pointer_bounds(Rules::Simple, op, registers, pairs).is_none()
}

/// Whether this is left once it is reduced, where the pairs lay within bounds as the procedure was entered.
pub fn reduces(entered: &PairBounds, before: Facts, after: Option<Facts>) -> bool {
    let mut known = KnownFact::new(before);
    let state = known.state();
    let read = read_in(
        &Program::unknown(),
        &States::of(&state),
        &known.relations.pairs,
    );
    let pairs = &mut known.relations.pairs;
    let is_left = reduce(entered, &read, &mut known.registers, pairs);
    match after {
        Some(after) => {
            let wanted = KnownFact::new(after);
            is_left
                && known.registers == wanted.registers
                && are_pairs_same(&known.relations.pairs, &wanted.relations.pairs)
        }
        None => !is_left,
    }
}

/// Whether a state stands for all that another one does, by the rules of version 4 or without what these add.
pub fn covers_all(is_whole: bool, s: Facts, t: Facts) -> bool {
    let program = Program {
        is_whole,
        ..Program::unknown()
    };
    covers(
        &program,
        &KnownFact::new(s).state(),
        &KnownFact::new(t).state(),
    )
}

/// Whether a step comes out so.
fn agrees(step: &RelatedStep) -> bool {
    match *step {
        Meets(condition, before, after) => meets(condition, before, after),
        Passes(condition, before, after) => passes(condition, before, after),
        Points(op, before, within) => points(op, before, within),
        Reduces(before, after) => reduces(&ANY_PAIRS, before, after),
        Carries(first, last, before, carry) => carries(first, last, before, carry),
        Covers(s, t, is_so) => covers_all(false, s, t) == is_so,
        CoversWhole(s, t, is_so) => covers_all(true, s, t) == is_so,
    }
}

/// Plays steps.
fn play(rt: &impl Abort, steps: &[RelatedStep]) {
    for (i, step) in steps.iter().enumerate() {
        assert!(rt; agrees(step), "step {i}");
    }
}

const OF_A: Other = Other::Register(A);

const OF_B: Other = Other::Register(B);

const OF_DE: Other = Other::Pair(De);

const OF_HL: Other = Other::Pair(Hl);

const LESS_ONE: u16 = 0xFFFF;

/// A in 0 to 20 and B in 5 to 30, which are one byte, compared with 10.
const COMPARED: Facts = &[Same(&[A, B]), Compared(10), Byte(A, 0, 20), Byte(B, 5, 30)];

/// B in 3 to 9, of which 4 and 8 have neither bit 0 nor bit 1.
const LOW_BITS: Facts = &[Same(&[B]), Bits(0x03), Byte(B, 3, 9)];

const MET: &[RelatedStep] = &[
    // Each place gets the bounds that all share.
    Meets(
        Condition::Carry,
        COMPARED,
        Some(&[Byte(A, 5, 9), Byte(B, 5, 9)]),
    ),
    Meets(
        Condition::NotCarry,
        COMPARED,
        Some(&[Byte(A, 10, 20), Byte(B, 10, 20)]),
    ),
    Meets(
        Condition::Zero,
        COMPARED,
        Some(&[Byte(A, 10, 10), Byte(B, 10, 10)]),
    ),
    Meets(
        Condition::NotZero,
        COMPARED,
        Some(&[Byte(A, 5, 20), Byte(B, 5, 20)]),
    ),
    Meets(
        Condition::NotZero,
        &[Same(&[A, B]), Compared(5), Byte(A, 0, 20), Byte(B, 5, 30)],
        Some(&[Byte(A, 6, 20), Byte(B, 6, 20)]),
    ),
    // They share none.
    Meets(
        Condition::NotZero,
        &[Same(&[A, B]), Compared(10), Byte(A, 0, 3), Byte(B, 5, 9)],
        None,
    ),
    // The byte at an address too.
    Meets(
        Condition::Carry,
        &[
            Same(&[D]),
            At(0xC123),
            Compared(10),
            Memory(8, 12),
            Byte(D, 0, 11),
        ],
        Some(&[Memory(8, 9), Byte(D, 8, 9)]),
    ),
    Meets(
        Condition::Zero,
        &[At(0xC123), Bits(0x80)],
        Some(&[Memory(0x00, 0x7F)]),
    ),
    // Bits: the least and the greatest value that has none of them, or one; they say nothing of the carry.
    Meets(Condition::Zero, LOW_BITS, Some(&[Byte(B, 4, 8)])),
    Meets(Condition::NotZero, LOW_BITS, Some(&[Byte(B, 3, 9)])),
    Meets(Condition::Carry, LOW_BITS, Some(&[Byte(B, 3, 9)])),
    Meets(
        Condition::NotZero,
        &[Same(&[B]), Bits(0x80)],
        Some(&[Byte(B, 0x80, 0xFF)]),
    ),
    Meets(
        Condition::NotZero,
        &[Same(&[B]), Bits(0x03), Byte(B, 4, 4)],
        None,
    ),
    Meets(
        Condition::Zero,
        &[Same(&[B]), Bits(0x03), Byte(B, 5, 7)],
        None,
    ),
    Meets(Condition::NotZero, &[Same(&[B]), Bits(0x00)], None),
];

/// A is a multiple of 8, compared with 20.
const EIGHTS: Facts = &[Same(&[A]), Compared(20), Each(A, 0x00, 0xF8, 3)];

/// B is the same byte, in 5 to 30: 8, 16 or 24.
const EIGHTS_BELOW: Facts = &[
    Same(&[A, B]),
    Compared(20),
    Each(A, 0x00, 0xF8, 3),
    Byte(B, 5, 30),
];

/// Sides keep low bits.
const MET_WITH_LOW_BITS: &[RelatedStep] = &[
    Meets(Condition::Carry, EIGHTS, Some(&[Each(A, 0, 16, 3)])),
    Meets(Condition::NotCarry, EIGHTS, Some(&[Each(A, 24, 0xF8, 3)])),
    // 20 isn't among the values, so there is nothing to take off, and it can't be met.
    Meets(Condition::NotZero, EIGHTS, Some(&[Each(A, 0, 0xF8, 3)])),
    Meets(Condition::Zero, EIGHTS, None),
    // The end is taken off, and one value is left.
    Meets(
        Condition::NotZero,
        &[Same(&[A]), Compared(0xF8), Each(A, 0x00, 0xF8, 3)],
        Some(&[Each(A, 0x00, 0xF0, 3)]),
    ),
    Meets(
        Condition::Zero,
        &[Same(&[A]), Compared(0xF8), Each(A, 0x00, 0xF8, 3)],
        Some(&[Byte(A, 0xF8, 0xF8)]),
    ),
    // The greatest multiple of 8 without bit 4 is E8.
    Meets(
        Condition::Zero,
        &[Same(&[A]), Bits(0x10), Each(A, 0x00, 0xF8, 3)],
        Some(&[Each(A, 0x00, 0xE8, 3)]),
    ),
    // What one place knows of low bits all know then.
    Meets(
        Condition::Carry,
        EIGHTS_BELOW,
        Some(&[Each(A, 8, 16, 3), Each(B, 8, 16, 3)]),
    ),
    Meets(
        Condition::NotCarry,
        EIGHTS_BELOW,
        Some(&[Byte(A, 24, 24), Byte(B, 24, 24)]),
    ),
    // A multiple of 8 is no other one's byte.
    Meets(
        Condition::Carry,
        &[
            Same(&[A, B]),
            Compared(20),
            Each(A, 0x00, 0xF8, 3),
            Each(B, 0x01, 0xF9, 3),
        ],
        None,
    ),
];

const REDUCED: &[RelatedStep] = &[
    // Bytes by their pair, and a pair by its bytes.
    Reduces(
        &[Word(Hl, 0xC0F0, 0xC10F), Word(De, 0x1234, 0x1240)],
        Some(&[
            Byte(H, 0xC0, 0xC1),
            Word(Hl, 0xC0F0, 0xC10F),
            Byte(D, 0x12, 0x12),
            Byte(E, 0x34, 0x40),
            Word(De, 0x1234, 0x1240),
        ]),
    ),
    Reduces(
        &[Byte(B, 3, 4), Byte(C, 0x10, 0x20)],
        Some(&[Byte(B, 3, 4), Byte(C, 0x10, 0x20), Word(Bc, 0x0310, 0x0420)]),
    ),
    // HL + A = C100 and DE - A = 0200: a pair by a register.
    Reduces(
        &[
            Byte(A, 0x01, 0x10),
            Link(Hl, 1, OF_A, 0xC100),
            Link(De, LESS_ONE, OF_A, 0x0200),
        ],
        Some(&[
            Byte(A, 0x01, 0x10),
            Byte(H, 0xC0, 0xC0),
            Byte(Register::L, 0xF0, 0xFF),
            Word(Hl, 0xC0F0, 0xC0FF),
            Link(Hl, 1, OF_A, 0xC100),
            Byte(D, 0x02, 0x02),
            Byte(E, 0x01, 0x10),
            Word(De, 0x0201, 0x0210),
            Link(De, LESS_ONE, OF_A, 0x0200),
        ]),
    ),
    // HL + A is from C100 to C110.
    Reduces(
        &[Byte(A, 0x01, 0x10), Wide(Hl, 1, OF_A, 0xC100, 0x0010)],
        Some(&[
            Byte(A, 0x01, 0x10),
            Byte(H, 0xC0, 0xC1),
            Word(Hl, 0xC0F0, 0xC10F),
            Wide(Hl, 1, OF_A, 0xC100, 0x0010),
        ]),
    ),
    // A register by its pair, rounded to what the factor divides: HL + 2 * A = 1000. The second time HL is cut by A.
    Reduces(
        &[Word(Hl, 0x0FF1, 0x0FFC), Link(Hl, 2, OF_A, 0x1000)],
        Some(&[
            Byte(A, 0x02, 0x07),
            Byte(H, 0x0F, 0x0F),
            Byte(Register::L, 0xF2, 0xFC),
            Word(Hl, 0x0FF2, 0x0FFC),
            Link(Hl, 2, OF_A, 0x1000),
        ]),
    ),
    // A pair by a pair, which is asked later: BC = HL, and HL - A = 4000.
    Reduces(
        &[
            Byte(A, 0, 5),
            Link(Bc, LESS_ONE, OF_HL, 0x0000),
            Link(Hl, LESS_ONE, OF_A, 0x4000),
        ],
        Some(&[
            Byte(A, 0, 5),
            Byte(B, 0x40, 0x40),
            Byte(C, 0, 5),
            Word(Bc, 0x4000, 0x4005),
            Link(Bc, LESS_ONE, OF_HL, 0x0000),
            Byte(H, 0x40, 0x40),
            Byte(Register::L, 0, 5),
            Word(Hl, 0x4000, 0x4005),
            Link(Hl, LESS_ONE, OF_A, 0x4000),
        ]),
    ),
    // HL + DE = 0010 goes round for some values of DE, so that nothing is cut.
    Reduces(
        &[Word(De, 0x0000, 0x0020), Link(Hl, 1, OF_DE, 0x0010)],
        Some(&[
            Byte(D, 0x00, 0x00),
            Byte(E, 0x00, 0x20),
            Word(De, 0x0000, 0x0020),
            Link(Hl, 1, OF_DE, 0x0010),
        ]),
    ),
    // Nothing is meant: by a byte, by a link, and by a multiple that there isn't.
    Reduces(&[Word(Hl, 0xC000, 0xC0FF), Byte(H, 0xD0, 0xD1)], None),
    Reduces(
        &[
            Word(Bc, 0x0000, 0x00FF),
            Word(De, 0x0000, 0x00FF),
            Link(Bc, 1, OF_DE, 0x1000),
        ],
        None,
    ),
    Reduces(&[Word(Hl, 0x0100, 0x0100), Link(Hl, 4, OF_A, 0x0102)], None),
];

const CARRIED: &[RelatedStep] = &[
    Carries(0x0000, 0x0FFF, &[Word(Hl, 0x1000, 0x2000)], Some(false)),
    Carries(0x1000, 0x2000, &[Word(Hl, 0xF000, 0xF100)], Some(true)),
    Carries(0x0800, 0x1000, &[Word(Hl, 0xF000, 0xF800)], None),
    // By HL's bytes.
    Carries(0x1000, 0x1000, &[Byte(H, 0xF0, 0xFF)], Some(true)),
];

/// DE counts down while Z says whether it is 0.
const COUNTED: Facts = &[
    Zero(De),
    Word(De, 0x0000, 0x0010),
    Link(Hl, 1, OF_DE, 0xC010),
];

const FOUND: &[RelatedStep] = &[
    // DE isn't 0 where NZ is met, and 0 where it isn't; HL + DE = C010 goes along.
    Passes(
        Condition::Zero,
        COUNTED,
        Some(&[
            Byte(D, 0x00, 0x00),
            Byte(E, 0x01, 0x10),
            Word(De, 0x0001, 0x0010),
            Byte(H, 0xC0, 0xC0),
            Byte(Register::L, 0x00, 0x0F),
            Word(Hl, 0xC000, 0xC00F),
            Link(Hl, 1, OF_DE, 0xC010),
        ]),
    ),
    Passes(
        Condition::NotZero,
        COUNTED,
        Some(&[
            Byte(D, 0x00, 0x00),
            Byte(E, 0x00, 0x00),
            Word(De, 0x0000, 0x0000),
            Byte(H, 0xC0, 0xC0),
            Byte(Register::L, 0x10, 0x10),
            Word(Hl, 0xC010, 0xC010),
            Link(Hl, 1, OF_DE, 0xC010),
        ]),
    ),
    // It can't be 0, and it can't be another.
    Passes(
        Condition::NotZero,
        &[Zero(De), Word(De, 0x0100, 0x0200)],
        None,
    ),
    Passes(Condition::Zero, &[Zero(De), Word(De, 0x0000, 0x0000)], None),
    // C says nothing of it.
    Passes(
        Condition::Carry,
        &[Zero(De), Word(De, 0x0000, 0x0001)],
        Some(&[
            Byte(D, 0x00, 0x00),
            Byte(E, 0x00, 0x01),
            Word(De, 0x0000, 0x0001),
        ]),
    ),
];

/// HL in C0F0 to C110, and BC by its bytes.
const POINTING: Facts = &[
    Word(Hl, 0xC0F0, 0xC110),
    Byte(B, 0xC2, 0xC3),
    Byte(C, 0x10, 0x20),
];

const POINTED: &[RelatedStep] = &[
    Points(
        Op::Load(Operand::Register(A), Operand::AtHl),
        POINTING,
        Some((0xC0F0, 0xC110)),
    ),
    Points(
        Op::StoreA(Indirect::HlIncrement),
        POINTING,
        Some((0xC0F0, 0xC110)),
    ),
    Points(Op::LoadA(Indirect::Bc), POINTING, Some((0xC210, 0xC320))),
    Points(Op::LoadA(Indirect::De), POINTING, Some((0x0000, 0xFFFF))),
    Points(Op::JumpHl, POINTING, Some((0xC0F0, 0xC110))),
    Points(Op::LoadSpHl, POINTING, Some((0xC0F0, 0xC110))),
    Points(Op::LoadAbsolute(0xC000), POINTING, None),
    Points(
        Op::Load(Operand::Register(A), Operand::Register(B)),
        POINTING,
        None,
    ),
];

/// A, B and C123 hold one byte, compared with 7, and DE is 0 where Z is set.
const PLACES: Facts = &[Same(&[A, B]), At(0xC123), Compared(7), Zero(De)];

/// HL + B = C100.
const LINKED: Facts = &[Link(Hl, 1, OF_B, 0xC100)];

/// HL + B is from C100 to C120.
const WIDE: Facts = &[Wide(Hl, 1, OF_B, 0xC100, 0x0020)];

const COVERED: &[RelatedStep] = &[
    // Fewer places and no test stand for more; others don't.
    Covers(PLACES, PLACES, true),
    Covers(PLACES, &[Same(&[B]), Compared(7)], true),
    Covers(PLACES, &[At(0xC123)], true),
    Covers(PLACES, &[], true),
    Covers(PLACES, &[Same(&[A, C])], false),
    Covers(PLACES, &[At(0xC124)], false),
    Covers(PLACES, &[Same(&[A]), Compared(8)], false),
    Covers(PLACES, &[Same(&[A]), Bits(7)], false),
    Covers(PLACES, &[Zero(De)], true),
    Covers(PLACES, &[Zero(Hl)], false),
    Covers(&[], &[Zero(De)], false),
    Covers(&[Same(&[A])], &[Same(&[A]), Compared(7)], false),
    Covers(&[Same(&[A])], &[Same(&[A]), At(0xC123)], false),
    // A pair's bounds, its bytes' too.
    Covers(&[Byte(H, 0xC0, 0xC0)], &[Word(Hl, 0xC000, 0xC0FF)], true),
    Covers(
        &[Word(Hl, 0xC000, 0xC0FE)],
        &[Word(Hl, 0xC000, 0xC0FF)],
        true,
    ),
    Covers(
        &[Word(Hl, 0xC000, 0xC100)],
        &[Word(Hl, 0xC000, 0xC0FF)],
        false,
    ),
    Covers(
        &[Word(Hl, 0xBFFF, 0xC0FF)],
        &[Word(Hl, 0xC000, 0xC0FF)],
        false,
    ),
    // The same link, or single values that meet it, modulo 65,536.
    Covers(LINKED, LINKED, true),
    Covers(LINKED, &[], true),
    Covers(LINKED, &[Link(Hl, 2, OF_B, 0xC100)], false),
    Covers(LINKED, &[Link(Hl, 1, OF_B, 0xC101)], false),
    Covers(LINKED, &[Link(Hl, 1, OF_A, 0xC100)], false),
    Covers(&[], LINKED, false),
    Covers(&[Word(Hl, 0xC0FF, 0xC0FF), Byte(B, 1, 1)], LINKED, true),
    Covers(&[Word(Hl, 0xC0FF, 0xC0FF), Byte(B, 2, 2)], LINKED, false),
    Covers(&[Word(Hl, 0xC0FF, 0xC0FF), Byte(B, 1, 2)], LINKED, false),
    Covers(
        &[Word(Hl, 0xFFFF, 0xFFFF), Word(De, 0x0001, 0x0001)],
        &[Link(Hl, 2, OF_DE, 0x0001)],
        true,
    ),
    // A link with a width: one of whose sums each is among its own, or bounds of both, by the rules of version 4 alone.
    CoversWhole(WIDE, WIDE, true),
    CoversWhole(LINKED, WIDE, true),
    CoversWhole(WIDE, LINKED, false),
    CoversWhole(&[Wide(Hl, 1, OF_B, 0xC101, 0x001F)], WIDE, true),
    CoversWhole(&[Wide(Hl, 1, OF_B, 0xC101, 0x0020)], WIDE, false),
    CoversWhole(
        &[Wide(Hl, 1, OF_B, 0xFFF0, 0x0020)],
        &[Wide(Hl, 1, OF_B, 0xFFE0, 0x0030)],
        true,
    ),
    CoversWhole(&[Word(Hl, 0xC0F0, 0xC0FF), Byte(B, 0x10, 0x21)], WIDE, true),
    CoversWhole(
        &[Word(Hl, 0xC0F0, 0xC0FF), Byte(B, 0x10, 0x22)],
        WIDE,
        false,
    ),
    Covers(
        &[Word(Hl, 0xC0F0, 0xC0FF), Byte(B, 0x10, 0x21)],
        WIDE,
        false,
    ),
];

#[test]
fn branches_cut_all_places(rt: HostRuntime) {
    play(&rt, MET);
    play(&rt, MET_WITH_LOW_BITS);
}

#[test]
fn pairs_and_links_cut_values(rt: HostRuntime) {
    play(&rt, REDUCED);
    play(&rt, CARRIED);
}

#[test]
fn branches_know_whether_a_pair_is_zero(rt: HostRuntime) {
    play(&rt, FOUND);
}

#[test]
fn pairs_bound_addresses(rt: HostRuntime) {
    play(&rt, POINTED);
}

#[test]
fn what_is_known_together_is_covered(rt: HostRuntime) {
    play(&rt, COVERED);
}
