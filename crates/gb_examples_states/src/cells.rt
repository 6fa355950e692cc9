//! Links that read a byte of RAM, by the rules of version 4: what stores, INC and DEC leave of them, which of them hold in a state, what
//! they cut, and which are known after a call. An example is a list of steps, which one function plays.

use crate::bases::{Given, NONE_READ, returns};
use crate::facts::KnownFact;
use crate::facts::StateFact::{At, Based, Bits, Byte, Each, Link, Memory, Same, Wide, Word};
use crate::related::{Facts, covers_all, reduces};
use crate::together::TogetherStep::{self, LeavesWhole, LeavesWithRead};
use crate::together::{self, STACK};
use gb_domain::pairs::WordPair::{Bc, De, Hl};
use gb_domain::pairs::{ANY_BOUNDS, ANY_PAIRS, Bounds, Other, PairBounds};
use gb_domain::types::Rules;
use gb_ops::op::Register::{A, B, C, D, E, H, L};
use gb_ops::op::{Indirect, Op, Operand, Pair, Shift, StackPair};
use gb_product::Program;
use gb_product::covering::covers;
use gb_relations::returned::ReadKept;
use gb_relations::transfer::relations_after;
use gb_samples::states::ANY;
use std::process::Abort;

#[derive(Clone, Copy)]
enum CellStep {
    /// An instruction that writes no register, or one of which nothing is known; what is known before it; what is claimed behind it,
    /// and whether that holds.
    Makes(Op, Facts, Facts, bool),
    /// What is known of one state and of another, and whether that stands for all that the first does.
    Covers(Facts, Facts, bool),
    /// What is known, and of registers and pairs once it is reduced, if anything is meant.
    Reduces(Facts, Option<Facts>),
    /// The same, with HL's bounds as the procedure was entered.
    ReducesFrom(u16, u16, Facts, Option<Facts>),
    /// What a callee gives back of registers and of what links read, what is known as it is called, what its exit says, and what is
    /// known after the call.
    Returns(Given, ReadKept, Facts, Facts, Facts),
}

use CellStep::{Covers, Makes, Reduces, ReducesFrom, Returns};

fn makes(op: Op, before: Facts, claimed: Facts) -> bool {
    let mut known = KnownFact::new(before);
    known.relations = relations_after(
        Rules::Extended,
        true,
        STACK,
        op,
        ANY_BOUNDS,
        &known.registers,
        ANY,
        &known.relations,
    );
    let program = Program {
        is_whole: true,
        ..Program::unknown()
    };
    covers(&program, &known.state(), &KnownFact::new(claimed).state())
}

/// Whether a step comes out so.
fn agrees(step: &CellStep) -> bool {
    match *step {
        Makes(op, before, claimed, is_so) => makes(op, before, claimed) == is_so,
        Covers(s, t, is_so) => covers_all(true, s, t) == is_so,
        Reduces(before, after) => reduces(&ANY_PAIRS, before, after),
        ReducesFrom(first, last, before, after) => {
            let entered = PairBounds {
                hl: Bounds { first, last },
                ..ANY_PAIRS
            };
            reduces(&entered, before, after)
        }
        Returns(given, read, caller, exit, after) => returns(given, read, caller, exit, after),
    }
}

/// Plays steps.
fn play(rt: &impl Abort, steps: &[CellStep]) {
    for (i, step) in steps.iter().enumerate() {
        assert!(rt; agrees(step), "step {i}");
    }
}

const AT_C200: Other = Other::Cell(0xC200);

const AT_C201: Other = Other::Cell(0xC201);

const OF_A: Other = Other::Register(A);

const OF_B: Other = Other::Register(B);

const OF_NOTHING: Other = Other::Nothing;

const IN_A: Operand = Operand::Register(A);

const IN_B: Operand = Operand::Register(B);

const IN_D: Operand = Operand::Register(D);

const IN_E: Operand = Operand::Register(E);

/// Factors below 0.
const LESS_ONE: u16 = 0xFFFF;

const LESS_TWO: u16 = 0xFFFE;

/// HL + A = C103.
const WITH_A: Facts = &[Link(Hl, 1, OF_A, 0xC103)];

/// HL + the byte at C200 = C103.
const WITH_C200: Facts = &[Link(Hl, 1, AT_C200, 0xC103)];

/// HL + the byte at C201 = C103.
const WITH_C201: Facts = &[Link(Hl, 1, AT_C201, 0xC103)];

/// Copies between registers and RAM: a link with the one holds with the other.
const COPIED: &[CellStep] = &[
    // HL + A = C103, and the byte at C200 becomes A: HL + it = C103, and HL + the one at C201 is anything.
    Makes(Op::StoreAbsolute(0xC200), WITH_A, WITH_C200, true),
    Makes(Op::StoreAbsolute(0xC200), WITH_A, WITH_C201, false),
    Makes(Op::StoreAbsolute(0xC201), WITH_A, WITH_C200, false),
    Makes(
        Op::StoreAbsolute(0xC200),
        WITH_A,
        &[Link(Hl, 1, AT_C200, 0xC104)],
        false,
    ),
    Makes(
        Op::StoreAbsolute(0xC200),
        WITH_A,
        &[Link(Hl, 2, AT_C200, 0xC103)],
        false,
    ),
    // By a pointer, which is C200, or may be C201.
    Makes(
        Op::StoreA(Indirect::De),
        &[Word(De, 0xC200, 0xC200), Link(Hl, 1, OF_A, 0xC103)],
        WITH_C200,
        true,
    ),
    Makes(
        Op::StoreA(Indirect::De),
        &[Word(De, 0xC200, 0xC201), Link(Hl, 1, OF_A, 0xC103)],
        WITH_C200,
        false,
    ),
    // Another register, a factor and a base stay what they are: DE - 2B - BC at entry = 0010.
    Makes(
        Op::Load(Operand::AtHl, IN_B),
        &[
            Word(Hl, 0xC200, 0xC200),
            Based(De, LESS_TWO, OF_B, Bc, 0x0010, 0),
        ],
        &[Based(De, LESS_TWO, AT_C200, Bc, 0x0010, 0)],
        true,
    ),
    Makes(
        Op::Load(Operand::AtHl, IN_B),
        &[
            Word(Hl, 0xC200, 0xC200),
            Based(De, LESS_TWO, OF_B, Bc, 0x0010, 0),
        ],
        &[Based(De, LESS_TWO, AT_C200, De, 0x0010, 0)],
        false,
    ),
    // HL + the byte at C200 = C103, and A becomes that byte: HL + A = C103.
    Makes(Op::LoadAbsolute(0xC200), WITH_C200, WITH_A, true),
    Makes(Op::LoadAbsolute(0xC200), WITH_C200, WITH_C200, true),
    Makes(Op::LoadAbsolute(0xC201), WITH_C200, WITH_A, false),
    Makes(Op::LoadAbsolute(0xC201), WITH_C200, WITH_C200, true),
];

/// Stores: links stay whose byte they can't reach.
const STORED: &[TogetherStep] = &[
    // At the address itself, and at the next one.
    LeavesWhole(
        Op::StoreAbsolute(0xC200),
        WITH_C200,
        &[Same(&[A]), At(0xC200)],
    ),
    LeavesWhole(
        Op::StoreAbsolute(0xC201),
        WITH_C200,
        &[Same(&[A]), At(0xC201), Link(Hl, 1, AT_C200, 0xC103)],
    ),
    // Each pair has its own: the byte at C201 is written.
    LeavesWhole(
        Op::StoreAbsolute(0xC201),
        &[
            Link(Bc, 1, AT_C200, 0x0010),
            Link(De, 1, AT_C201, 0x0020),
            Link(Hl, 1, OF_B, 0x0030),
        ],
        &[
            Same(&[A]),
            At(0xC201),
            Link(Bc, 1, AT_C200, 0x0010),
            Link(Hl, 1, OF_B, 0x0030),
        ],
    ),
    // Two bytes are written: C1FE and C1FF, C1FF and C200, C200 and C201.
    LeavesWhole(Op::StoreSp(0xC1FE), WITH_C200, WITH_C200),
    LeavesWhole(Op::StoreSp(0xC1FF), WITH_C200, &[]),
    LeavesWhole(Op::StoreSp(0xC200), WITH_C200, &[]),
    // In high RAM: at FF80, and at FF80 to FF90.
    LeavesWhole(
        Op::StoreHigh(0x80),
        &[
            Link(Bc, 1, Other::Cell(0xFF80), 0x0010),
            Link(Hl, 1, Other::Cell(0xFF81), 0x0030),
        ],
        &[
            Same(&[A]),
            At(0xFF80),
            Link(Hl, 1, Other::Cell(0xFF81), 0x0030),
        ],
    ),
    LeavesWhole(
        Op::StoreHighC,
        &[
            Byte(C, 0x80, 0x90),
            Link(De, 1, Other::Cell(0xFF90), 0x0020),
            Link(Hl, 1, Other::Cell(0xFF91), 0x0030),
        ],
        &[Link(Hl, 1, Other::Cell(0xFF91), 0x0030)],
    ),
    // By a pointer: at C200 to C2FF.
    LeavesWhole(
        Op::StoreA(Indirect::Bc),
        &[
            Word(Bc, 0xC200, 0xC2FF),
            Link(De, 1, Other::Cell(0xC2FF), 0x0020),
            Link(Hl, 1, Other::Cell(0xC1FF), 0x0030),
        ],
        &[
            Word(Bc, 0xC200, 0xC2FF),
            Link(Hl, 1, Other::Cell(0xC1FF), 0x0030),
        ],
    ),
    // HL counts after the store: that is at C100 to C1FF, and HL + 1 + the byte = C104.
    LeavesWhole(
        Op::StoreA(Indirect::HlIncrement),
        &[Word(Hl, 0xC100, 0xC1FF), Link(Hl, 1, AT_C200, 0xC103)],
        &[Word(Hl, 0xC101, 0xC200), Link(Hl, 1, AT_C200, 0xC104)],
    ),
    // At multiples of 16: C210 is one, and C204 isn't.
    LeavesWhole(
        Op::StoreA(Indirect::De),
        &[
            Byte(D, 0xC2, 0xC2),
            Each(E, 0x00, 0xF0, 4),
            Link(Bc, 1, Other::Cell(0xC204), 0x0010),
            Link(Hl, 1, Other::Cell(0xC210), 0x0030),
        ],
        &[Link(Bc, 1, Other::Cell(0xC204), 0x0010)],
    ),
    // The other stores at HL.
    LeavesWhole(
        Op::LoadImmediate(Operand::AtHl, 7),
        &[
            Word(Hl, 0xC200, 0xC200),
            Link(Bc, 1, AT_C200, 0x0010),
            Link(De, 1, AT_C201, 0x0020),
        ],
        &[Word(Hl, 0xC200, 0xC200), Link(De, 1, AT_C201, 0x0020)],
    ),
    LeavesWhole(
        Op::Load(Operand::AtHl, IN_E),
        &[
            Word(Hl, 0xC200, 0xC200),
            Link(Bc, 1, AT_C200, 0x0010),
            Link(De, 1, AT_C201, 0x0020),
        ],
        &[
            Same(&[E]),
            At(0xC200),
            Word(Hl, 0xC200, 0xC200),
            Link(De, 1, AT_C201, 0x0020),
        ],
    ),
    LeavesWhole(
        Op::Set(0, Operand::AtHl),
        &[
            Word(Hl, 0xC200, 0xC200),
            Link(Bc, 1, AT_C200, 0x0010),
            Link(De, 1, AT_C201, 0x0020),
        ],
        &[Word(Hl, 0xC200, 0xC200), Link(De, 1, AT_C201, 0x0020)],
    ),
    LeavesWhole(
        Op::Reset(0, Operand::AtHl),
        &[
            Word(Hl, 0xC200, 0xC200),
            Link(Bc, 1, AT_C200, 0x0010),
            Link(De, 1, AT_C201, 0x0020),
        ],
        &[Word(Hl, 0xC200, 0xC200), Link(De, 1, AT_C201, 0x0020)],
    ),
    LeavesWhole(
        Op::Shift(Shift::Swap, Operand::AtHl),
        &[
            Word(Hl, 0xC200, 0xC200),
            Link(Bc, 1, AT_C200, 0x0010),
            Link(De, 1, AT_C201, 0x0020),
        ],
        &[
            At(0xC200),
            Bits(0xFF),
            Word(Hl, 0xC200, 0xC200),
            Link(De, 1, AT_C201, 0x0020),
        ],
    ),
    // A push stores on the stack, where links read nothing.
    LeavesWhole(Op::Push(StackPair::Bc), WITH_C200, WITH_C200),
];

/// Steps of the byte, of the pair, and of neither.
const MOVED: &[TogetherStep] = &[
    // The byte is one less: C103 - 1 = C102. Z then says whether it is 0.
    LeavesWithRead(
        0x01,
        0xFF,
        Op::Decrement(Operand::AtHl),
        &[Word(Hl, 0xC200, 0xC200), Link(De, 1, AT_C200, 0xC103)],
        &[
            At(0xC200),
            Bits(0xFF),
            Word(Hl, 0xC200, 0xC200),
            Link(De, 1, AT_C200, 0xC102),
        ],
    ),
    // One more: 0010 + 2 = 0012, 0020 - 1 = 001F, and 0030 + 1 = 0031.
    LeavesWithRead(
        0x00,
        0xFE,
        Op::Increment(Operand::AtHl),
        &[
            Link(Bc, 2, AT_C200, 0x0010),
            Link(De, LESS_ONE, AT_C200, 0x0020),
            Word(Hl, 0xC200, 0xC200),
            Link(Hl, 1, AT_C200, 0x0030),
        ],
        &[
            At(0xC200),
            Bits(0xFF),
            Link(Bc, 2, AT_C200, 0x0012),
            Link(De, LESS_ONE, AT_C200, 0x001F),
            Word(Hl, 0xC200, 0xC200),
            Link(Hl, 1, AT_C200, 0x0031),
        ],
    ),
    // A base and a width stay: 0010 - 1 = 000F.
    LeavesWithRead(
        0x01,
        0x01,
        Op::Decrement(Operand::AtHl),
        &[
            Word(Hl, 0xC200, 0xC200),
            Based(De, 1, AT_C200, Bc, 0x0010, 5),
        ],
        &[
            At(0xC200),
            Bits(0xFF),
            Word(Hl, 0xC200, 0xC200),
            Based(De, 1, AT_C200, Bc, 0x000F, 5),
        ],
    ),
    // It may be FF, and then 00, which is 255 less; or 00, and then FF.
    LeavesWithRead(
        0x00,
        0xFF,
        Op::Increment(Operand::AtHl),
        &[Word(Hl, 0xC200, 0xC200), Link(De, 1, AT_C200, 0xC103)],
        &[At(0xC200), Bits(0xFF), Word(Hl, 0xC200, 0xC200)],
    ),
    LeavesWithRead(
        0x00,
        0xFF,
        Op::Decrement(Operand::AtHl),
        &[Word(Hl, 0xC200, 0xC200), Link(De, 1, AT_C200, 0xC103)],
        &[At(0xC200), Bits(0xFF), Word(Hl, 0xC200, 0xC200)],
    ),
    // It is the byte at C200, or the one at C201: both sums may have moved.
    LeavesWithRead(
        0x01,
        0x05,
        Op::Decrement(Operand::AtHl),
        &[
            Word(Hl, 0xC200, 0xC201),
            Link(Bc, 1, AT_C200, 0x0010),
            Link(De, 1, AT_C201, 0x0020),
        ],
        &[Word(Hl, 0xC200, 0xC201)],
    ),
    // It is the one at C201, which may go round or not.
    LeavesWithRead(
        0x00,
        0xFF,
        Op::Increment(Operand::AtHl),
        &[Word(Hl, 0xC201, 0xC201), Link(De, 1, AT_C200, 0xC103)],
        &[
            At(0xC201),
            Bits(0xFF),
            Word(Hl, 0xC201, 0xC201),
            Link(De, 1, AT_C200, 0xC103),
        ],
    ),
    LeavesWithRead(
        0x00,
        0x10,
        Op::Increment(Operand::AtHl),
        &[Word(Hl, 0xC201, 0xC201), Link(De, 1, AT_C200, 0xC103)],
        &[
            At(0xC201),
            Bits(0xFF),
            Word(Hl, 0xC201, 0xC201),
            Link(De, 1, AT_C200, 0xC103),
        ],
    ),
    // The pair is one more, C103 + 1 = C104, or D is one less, C103 - 0100 = C003: DE is 0000 to FEFF then.
    LeavesWhole(
        Op::IncrementPair(Pair::Hl),
        WITH_C200,
        &[Link(Hl, 1, AT_C200, 0xC104)],
    ),
    LeavesWhole(
        Op::Decrement(IN_D),
        &[Byte(D, 0x01, 0xFF), Link(De, 1, AT_C200, 0xC103)],
        &[
            Same(&[D]),
            Bits(0xFF),
            Word(De, 0x0000, 0xFEFF),
            Link(De, 1, AT_C200, 0xC003),
        ],
    ),
    // Registers that it doesn't read, and one of its pair.
    LeavesWhole(Op::LoadImmediate(IN_A, 7), WITH_C200, WITH_C200),
    LeavesWhole(
        Op::LoadImmediate(IN_E, 7),
        &[Link(De, 1, AT_C200, 0x0020), Link(Hl, 1, AT_C200, 0x0030)],
        &[Link(Hl, 1, AT_C200, 0x0030)],
    ),
];

/// HL + the byte at C200 - BC at entry = 0010, and that byte is 1 to 4.
const KNOWN: Facts = &[
    At(0xC200),
    Memory(0x01, 0x04),
    Based(Hl, 1, AT_C200, Bc, 0x0010, 0),
];

const COVERED: &[CellStep] = &[
    // It reads one byte and no other.
    Covers(WITH_C200, WITH_C200, true),
    Covers(WITH_C200, WITH_C201, false),
    Covers(WITH_C200, &[Link(Hl, 1, AT_C200, 0xC104)], false),
    Covers(WITH_C200, &[Wide(Hl, 1, AT_C200, 0xC102, 1)], true),
    Covers(WITH_C200, &[Link(De, 1, AT_C200, 0xC103)], false),
    Covers(WITH_C200, &[Based(Hl, 1, AT_C200, Bc, 0xC103, 0)], false),
    Covers(WITH_C200, &[], true),
    Covers(&[], WITH_C200, false),
    // What the byte is a copy of is read too, and nothing else.
    Covers(
        &[Same(&[A, B]), At(0xC200), Link(Hl, 1, OF_A, 0xC103)],
        WITH_C200,
        true,
    ),
    Covers(
        &[Same(&[A, B]), At(0xC200), Link(Hl, 1, AT_C200, 0xC103)],
        &[Link(Hl, 1, OF_B, 0xC103)],
        true,
    ),
    Covers(
        &[Same(&[A, B]), At(0xC201), Link(Hl, 1, OF_A, 0xC103)],
        WITH_C200,
        false,
    ),
    Covers(
        &[Same(&[B]), At(0xC200), Link(Hl, 1, OF_A, 0xC103)],
        WITH_C200,
        false,
    ),
    // HL = C0FE, and the byte is 5: their sum is C103. Or it is 5 or 6, and the sum C103 or C104.
    Covers(
        &[At(0xC200), Memory(0x05, 0x05), Word(Hl, 0xC0FE, 0xC0FE)],
        WITH_C200,
        true,
    ),
    Covers(
        &[At(0xC200), Memory(0x05, 0x06), Word(Hl, 0xC0FE, 0xC0FE)],
        WITH_C200,
        false,
    ),
    Covers(
        &[At(0xC200), Memory(0x05, 0x06), Word(Hl, 0xC0FE, 0xC0FE)],
        &[Wide(Hl, 1, AT_C200, 0xC103, 1)],
        true,
    ),
    // Of the byte at C201 nothing is known: the sum is C0FE to C1FD.
    Covers(
        &[At(0xC200), Memory(0x05, 0x05), Word(Hl, 0xC0FE, 0xC0FE)],
        &[Wide(Hl, 1, AT_C201, 0xC0FE, 0x00FF)],
        true,
    ),
    Covers(
        &[At(0xC200), Memory(0x05, 0x05), Word(Hl, 0xC0FE, 0xC0FE)],
        &[Wide(Hl, 1, AT_C201, 0xC0FE, 0x00FE)],
        false,
    ),
    // The same link without the byte: HL - BC at entry is 0010 - 4 to 0010 - 1, 000C to 000F.
    Covers(KNOWN, &[Based(Hl, 1, OF_NOTHING, Bc, 0x000C, 0x0003)], true),
    Covers(
        KNOWN,
        &[Based(Hl, 1, OF_NOTHING, Bc, 0x000C, 0x0002)],
        false,
    ),
    Covers(
        KNOWN,
        &[Based(Hl, 1, OF_NOTHING, Bc, 0x000D, 0x0002)],
        false,
    ),
    // With the byte at C201 instead, which is 00 to FF: 000C + 00 to 000F + FF, 000C to 010E.
    Covers(KNOWN, &[Based(Hl, 1, AT_C201, Bc, 0x000C, 0x0102)], true),
    Covers(KNOWN, &[Based(Hl, 1, AT_C201, Bc, 0x000C, 0x0101)], false),
];

const REDUCED: &[CellStep] = &[
    // HL = C109 - the byte, which is 0 to 9: C100 to C109.
    Reduces(
        &[At(0xC200), Memory(0x00, 0x09), Link(Hl, 1, AT_C200, 0xC109)],
        Some(&[
            Byte(H, 0xC1, 0xC1),
            Byte(L, 0x00, 0x09),
            Word(Hl, 0xC100, 0xC109),
            Link(Hl, 1, AT_C200, 0xC109),
        ]),
    ),
    // It is any byte, C109 - FF = C00A to C109; of another one's bounds nothing follows.
    Reduces(
        &[Link(Hl, 1, AT_C200, 0xC109)],
        Some(&[
            Byte(H, 0xC0, 0xC1),
            Word(Hl, 0xC00A, 0xC109),
            Link(Hl, 1, AT_C200, 0xC109),
        ]),
    ),
    Reduces(
        &[At(0xC200), Memory(0x00, 0x09), Link(Hl, 1, AT_C201, 0xC109)],
        Some(&[
            Byte(H, 0xC0, 0xC1),
            Word(Hl, 0xC00A, 0xC109),
            Link(Hl, 1, AT_C201, 0xC109),
        ]),
    ),
    // BC = C200 - 32 times the byte, C200 - 0120 = C0E0 to C200; DE = C000 + 2 times it, C000 to C012.
    Reduces(
        &[
            At(0xC200),
            Memory(0x00, 0x09),
            Link(Bc, 32, AT_C200, 0xC200),
            Link(De, LESS_TWO, AT_C200, 0xC000),
        ],
        Some(&[
            Byte(B, 0xC0, 0xC2),
            Word(Bc, 0xC0E0, 0xC200),
            Link(Bc, 32, AT_C200, 0xC200),
            Byte(D, 0xC0, 0xC0),
            Byte(E, 0x00, 0x12),
            Word(De, 0xC000, 0xC012),
            Link(De, LESS_TWO, AT_C200, 0xC000),
        ]),
    ),
    // HL = C109 to C119, less 0 to 9: C100 to C119.
    Reduces(
        &[
            At(0xC200),
            Memory(0x00, 0x09),
            Wide(Hl, 1, AT_C200, 0xC109, 0x0010),
        ],
        Some(&[
            Byte(H, 0xC1, 0xC1),
            Byte(L, 0x00, 0x19),
            Word(Hl, 0xC100, 0xC119),
            Wide(Hl, 1, AT_C200, 0xC109, 0x0010),
        ]),
    ),
    // DE = HL at entry, C010 to C012, less 1 to 3: C00D to C011.
    ReducesFrom(
        0xC010,
        0xC012,
        &[
            At(0xC200),
            Memory(0x01, 0x03),
            Based(De, 1, AT_C200, Hl, 0x0000, 0),
        ],
        Some(&[
            Byte(D, 0xC0, 0xC0),
            Byte(E, 0x0D, 0x11),
            Word(De, 0xC00D, 0xC011),
            Based(De, 1, AT_C200, Hl, 0x0000, 0),
        ]),
    ),
    // No HL of D000 to D0FF is C100 to C109.
    Reduces(
        &[
            At(0xC200),
            Memory(0x00, 0x09),
            Word(Hl, 0xD000, 0xD0FF),
            Link(Hl, 1, AT_C200, 0xC109),
        ],
        None,
    ),
];

/// The byte that HL's link reads is given back.
const HL_READ: ReadKept = ReadKept {
    hl: true,
    ..NONE_READ
};

/// The one that DE's link reads is.
const DE_READ: ReadKept = ReadKept {
    de: true,
    ..NONE_READ
};

/// The callee adds 4 to HL.
const FOUR_ON: Facts = &[Based(Hl, 1, OF_NOTHING, Hl, 0x0004, 0)];

/// It makes BC 3 more than DE was.
const THREE_ON: Facts = &[Based(Bc, 1, OF_NOTHING, De, 0x0003, 0)];

const RETURNED: &[CellStep] = &[
    // Pair and byte are given back, or one of them isn't.
    Returns(&[H, L], HL_READ, WITH_C200, &[], WITH_C200),
    Returns(&[H, L], NONE_READ, WITH_C200, &[], &[]),
    Returns(&[H, L], DE_READ, WITH_C200, &[], &[]),
    Returns(&[H], HL_READ, WITH_C200, &[], &[]),
    // HL + 4 + the byte = C107, where the byte is given back.
    Returns(
        &[],
        HL_READ,
        WITH_C200,
        FOUR_ON,
        &[Link(Hl, 1, AT_C200, 0xC107)],
    ),
    Returns(&[], DE_READ, WITH_C200, FOUR_ON, &[]),
    // It is DE's link that is put in: 0020 + 3 = 0023.
    Returns(
        &[],
        DE_READ,
        &[Link(De, 1, AT_C200, 0x0020)],
        THREE_ON,
        &[Link(Bc, 1, AT_C200, 0x0023)],
    ),
    Returns(&[], HL_READ, &[Link(De, 1, AT_C200, 0x0020)], THREE_ON, &[]),
    // A byte that the exit's link reads is the one after the call: 0010 + 4 = 0014.
    Returns(
        &[],
        NONE_READ,
        &[Based(Hl, 1, OF_NOTHING, De, 0x0010, 0)],
        &[Based(Hl, 1, AT_C200, Hl, 0x0004, 0)],
        &[Based(Hl, 1, AT_C200, De, 0x0014, 0)],
    ),
    Returns(&[], NONE_READ, WITH_A, WITH_C200, WITH_C200),
];

#[test]
fn copies_of_a_byte_are_read_instead_of_it(rt: HostRuntime) {
    play(&rt, COPIED);
}

#[test]
fn stores_forget_links_that_read_there(rt: HostRuntime) {
    together::play(&rt, STORED);
}

#[test]
fn steps_of_a_byte_move_sums(rt: HostRuntime) {
    together::play(&rt, MOVED);
}

#[test]
fn links_that_read_bytes_are_found(rt: HostRuntime) {
    play(&rt, COVERED);
}

#[test]
fn bytes_that_links_read_cut_pairs(rt: HostRuntime) {
    play(&rt, REDUCED);
}

#[test]
fn bytes_that_links_read_may_be_given_back(rt: HostRuntime) {
    play(&rt, RETURNED);
}
