//! Links that speak of what a pair held as the procedure was entered, by the rules of version 4: values that they leave, which of them
//! hold in a state, and what is left of them in another procedure. An example is a list of steps, which one function plays.

use crate::facts::KnownFact;
use crate::facts::StateFact::{Based, Byte, Held, Link, Wide, Word};
use crate::related::{Facts, covers_all, reduces};
use gb_domain::pairs::WordPair::{Bc, De, Hl};
use gb_domain::pairs::{ANY_PAIRS, Bounds, Other, PairBounds};
use gb_ops::op::Register;
use gb_ops::op::Register::{A, B, C, D, E, H, L};
use gb_ops::registers::Registers;
use gb_pairs::written::without_bases;
use gb_relations::returned::{Kept, ReadKept, returned};
use gb_samples::relations::{are_pairs_same, are_same};
use std::process::Abort;

/// Registers that a callee gives back as they were.
pub type Given = &'static [Register];

/// No byte of RAM that a link reads is given back.
pub const NONE_READ: ReadKept = ReadKept {
    bc: false,
    de: false,
    hl: false,
};

#[derive(Clone, Copy)]
pub enum BasedStep {
    /// HL's bounds as the procedure was entered, what is known, and of registers and pairs once it is reduced, if anything is meant.
    Reduces(u16, u16, Facts, Option<Facts>),
    /// What is known of one state and of another, and whether that stands for all that the first does.
    Covers(Facts, Facts, bool),
    /// What is known of the pairs as another procedure is entered, and what is known of them there.
    Enters(Facts, Facts),
    /// What a callee gives back, what is known as it is called, what its exit says, and what is known after the call.
    Returns(Given, Facts, Facts, Facts),
}

use BasedStep::{Covers, Enters, Reduces, Returns};

fn enters(before: Facts, after: Facts) -> bool {
    let known = KnownFact::new(before);
    let wanted = KnownFact::new(after);
    are_pairs_same(
        &without_bases(&known.relations.pairs),
        &wanted.relations.pairs,
    )
}

/// Flags and the place in memory aren't given back.
fn kept_by(given: Given, read: ReadKept) -> Kept {
    let mut registers = Registers {
        a: false,
        b: false,
        c: false,
        d: false,
        e: false,
        h: false,
        l: false,
    };
    for register in given {
        registers.set(*register, true);
    }
    Kept {
        registers,
        flags: false,
        address: false,
        read,
    }
}

/// Whether this is known after a call, where the callee gives back registers and bytes that links of its caller read.
pub fn returns(given: Given, read: ReadKept, caller: Facts, exit: Facts, after: Facts) -> bool {
    let known = KnownFact::new(caller);
    let left = returned(
        &kept_by(given, read),
        &known.registers,
        &known.relations,
        &KnownFact::new(exit).relations,
    );
    are_same(&left, &KnownFact::new(after).relations)
}

/// Whether a step comes out so.
fn agrees(step: &BasedStep) -> bool {
    match *step {
        Reduces(first, last, before, after) => {
            let entered = PairBounds {
                hl: Bounds { first, last },
                ..ANY_PAIRS
            };
            reduces(&entered, before, after)
        }
        Covers(s, t, is_so) => covers_all(true, s, t) == is_so,
        Enters(before, after) => enters(before, after),
        Returns(given, caller, exit, after) => returns(given, NONE_READ, caller, exit, after),
    }
}

/// Plays steps.
fn play(rt: &impl Abort, steps: &[BasedStep]) {
    for (i, step) in steps.iter().enumerate() {
        assert!(rt; agrees(step), "step {i}");
    }
}

const OF_A: Other = Other::Register(A);

const OF_B: Other = Other::Register(B);

const OF_C: Other = Other::Register(C);

const OF_NOTHING: Other = Other::Nothing;

const REDUCED: &[BasedStep] = &[
    // HL - HL at entry = 0004, and HL was C100 to C1FF.
    Reduces(
        0xC100,
        0xC1FF,
        &[Based(Hl, 1, OF_NOTHING, Hl, 0x0004, 0)],
        Some(&[
            Byte(H, 0xC1, 0xC2),
            Word(Hl, 0xC104, 0xC203),
            Based(Hl, 1, OF_NOTHING, Hl, 0x0004, 0),
        ]),
    ),
    // BC - HL at entry is 0 to 10: both widths are added.
    Reduces(
        0x8000,
        0x8010,
        &[Based(Bc, 1, OF_NOTHING, Hl, 0x0000, 0x0010)],
        Some(&[
            Byte(B, 0x80, 0x80),
            Byte(C, 0x00, 0x20),
            Word(Bc, 0x8000, 0x8020),
            Based(Bc, 1, OF_NOTHING, Hl, 0x0000, 0x0010),
        ]),
    ),
    // DE + A - HL at entry = 0000: the pair by A and the base, and A by the pair and the base.
    Reduces(
        0xC010,
        0xC012,
        &[Byte(A, 0x01, 0x03), Based(De, 1, OF_A, Hl, 0x0000, 0)],
        Some(&[
            Byte(A, 0x01, 0x03),
            Byte(D, 0xC0, 0xC0),
            Byte(E, 0x0D, 0x11),
            Word(De, 0xC00D, 0xC011),
            Based(De, 1, OF_A, Hl, 0x0000, 0),
        ]),
    ),
    Reduces(
        0xC010,
        0xC012,
        &[Word(De, 0xC000, 0xC003), Based(De, 1, OF_A, Hl, 0x0000, 0)],
        Some(&[
            Byte(A, 0x0D, 0x12),
            Byte(D, 0xC0, 0xC0),
            Byte(E, 0x00, 0x03),
            Word(De, 0xC000, 0xC003),
            Based(De, 1, OF_A, Hl, 0x0000, 0),
        ]),
    ),
    // HL was any word, or another pair is the base: nothing is cut.
    Reduces(
        0x0000,
        0xFFFF,
        &[
            Word(Hl, 0xC000, 0xC0FF),
            Based(Hl, 1, OF_NOTHING, Hl, 0x0004, 0),
        ],
        Some(&[
            Byte(H, 0xC0, 0xC0),
            Word(Hl, 0xC000, 0xC0FF),
            Based(Hl, 1, OF_NOTHING, Hl, 0x0004, 0),
        ]),
    ),
    Reduces(
        0xC080,
        0xC0FF,
        &[
            Word(Hl, 0xC000, 0xC0FF),
            Based(Hl, 1, OF_NOTHING, De, 0x0000, 0),
        ],
        Some(&[
            Byte(H, 0xC0, 0xC0),
            Word(Hl, 0xC000, 0xC0FF),
            Based(Hl, 1, OF_NOTHING, De, 0x0000, 0),
        ]),
    ),
    // Nor where the bounds at entry are empty.
    Reduces(
        0xC081,
        0xC080,
        &[
            Word(Hl, 0xC000, 0xC0FF),
            Based(Hl, 1, OF_NOTHING, Hl, 0x0000, 0),
        ],
        Some(&[
            Byte(H, 0xC0, 0xC0),
            Word(Hl, 0xC000, 0xC0FF),
            Based(Hl, 1, OF_NOTHING, Hl, 0x0000, 0),
        ]),
    ),
    // Widths of FF10 together cut, and of 10010 don't.
    Reduces(
        0x0010,
        0x0020,
        &[Based(Hl, 1, OF_NOTHING, Hl, 0x0000, 0xFF00)],
        Some(&[
            Word(Hl, 0x0010, 0xFF20),
            Based(Hl, 1, OF_NOTHING, Hl, 0x0000, 0xFF00),
        ]),
    ),
    Reduces(
        0x0010,
        0x0120,
        &[Based(Hl, 1, OF_NOTHING, Hl, 0x0000, 0xFF00)],
        Some(&[Based(Hl, 1, OF_NOTHING, Hl, 0x0000, 0xFF00)]),
    ),
    // Nothing is meant.
    Reduces(
        0xC100,
        0xC1FF,
        &[
            Word(Hl, 0xD000, 0xD0FF),
            Based(Hl, 1, OF_NOTHING, Hl, 0x0000, 0),
        ],
        None,
    ),
];

/// HL is what it was as the procedure was entered.
const UNMOVED: Facts = &[Held(H, H), Held(L, L)];

/// HL - HL at entry = 0000.
const FROM_HL: Facts = &[Based(Hl, 1, OF_NOTHING, Hl, 0x0000, 0)];

/// HL - DE at entry = 0000.
const FROM_DE: Facts = &[Based(Hl, 1, OF_NOTHING, De, 0x0000, 0)];

/// HL + A - BC at entry = 0010.
const WITH_A: Facts = &[Based(Hl, 1, OF_A, Bc, 0x0010, 0)];

const COVERED: &[BasedStep] = &[
    // Both bytes are copies of the base's, each of the one in its place.
    Covers(UNMOVED, FROM_HL, true),
    Covers(UNMOVED, FROM_DE, false),
    Covers(&[Held(H, D), Held(L, E)], FROM_HL, false),
    Covers(&[Held(H, D), Held(L, E)], FROM_DE, true),
    Covers(&[Held(H, H)], FROM_HL, false),
    Covers(&[Held(L, L)], FROM_HL, false),
    Covers(&[Held(H, L), Held(L, H)], FROM_HL, false),
    Covers(&[], FROM_HL, false),
    // With a width, and with a register that is read.
    Covers(UNMOVED, &[Based(Hl, 1, OF_NOTHING, Hl, 0xFFFF, 1)], true),
    Covers(UNMOVED, &[Based(Hl, 1, OF_NOTHING, Hl, 0x0001, 1)], false),
    Covers(
        &[Held(H, H), Held(L, L), Byte(A, 0x00, 0x10)],
        &[Based(Hl, 1, OF_A, Hl, 0x0000, 0x0010)],
        true,
    ),
    Covers(
        &[Held(H, H), Held(L, L), Byte(A, 0x00, 0x11)],
        &[Based(Hl, 1, OF_A, Hl, 0x0000, 0x0010)],
        false,
    ),
    // Bounds say nothing of a base.
    Covers(
        &[Word(Hl, 0xC100, 0xC100)],
        &[Based(Hl, 1, OF_NOTHING, Hl, 0xC100, 0xFFFF)],
        false,
    ),
    Covers(
        &[Word(Hl, 0x0000, 0x0000), Held(H, H)],
        &[Based(Hl, 1, OF_NOTHING, Hl, 0x0000, 0xFFFF)],
        false,
    ),
    // A link with the same base, and no other.
    Covers(WITH_A, WITH_A, true),
    Covers(WITH_A, &[Based(Hl, 1, OF_A, Bc, 0x000F, 1)], true),
    Covers(WITH_A, &[Based(Hl, 1, OF_A, De, 0x0010, 0)], false),
    Covers(WITH_A, &[Link(Hl, 1, OF_A, 0x0010)], false),
    Covers(&[Link(Hl, 1, OF_A, 0x0010)], WITH_A, false),
    // The same link without A, which is 1 to 4.
    Covers(
        &[Byte(A, 0x01, 0x04), Based(Hl, 1, OF_A, Bc, 0x0010, 0)],
        &[Based(Hl, 1, OF_NOTHING, Bc, 0x000C, 0x0003)],
        true,
    ),
    Covers(
        &[Byte(A, 0x01, 0x04), Based(Hl, 1, OF_A, Bc, 0x0010, 0)],
        &[Based(Hl, 1, OF_NOTHING, Bc, 0x000C, 0x0002)],
        false,
    ),
    Covers(
        &[Byte(A, 0x01, 0x04), Based(Hl, 1, OF_A, Bc, 0x0010, 0)],
        &[Based(Hl, 1, OF_NOTHING, De, 0x000C, 0x0003)],
        false,
    ),
];

/// In another procedure the base would be another word.
const ENTERED: &[BasedStep] = &[
    Enters(
        &[
            Word(Hl, 0xC100, 0xC1FF),
            Based(Hl, 1, OF_NOTHING, Hl, 0x0004, 0),
            Link(De, 1, OF_B, 0x0100),
        ],
        &[Word(Hl, 0xC100, 0xC1FF), Link(De, 1, OF_B, 0x0100)],
    ),
    Enters(
        &[
            Based(Bc, 1, OF_A, Hl, 0x0004, 0),
            Based(De, 1, OF_NOTHING, De, 0x0000, 5),
        ],
        &[],
    ),
];

/// The callee adds 4 to HL.
const FOUR_ON: Facts = &[Based(Hl, 1, OF_NOTHING, Hl, 0x0004, 0)];

/// The callee adds 4 to 7.
const FOUR_OR_MORE: Facts = &[Based(Hl, 1, OF_NOTHING, Hl, 0x0004, 0x0003)];

/// HL + C is 4 more than HL was.
const LESS_C: Facts = &[Based(Hl, 1, OF_C, Hl, 0x0004, 0)];

const PUT_IN: &[BasedStep] = &[
    // By the caller's link of HL: sums and widths are added, and one of both reads something.
    Returns(
        &[B],
        &[Link(Hl, 1, OF_B, 0xC100)],
        FOUR_ON,
        &[Link(Hl, 1, OF_B, 0xC104)],
    ),
    Returns(
        &[B],
        &[Wide(Hl, 2, OF_B, 0xFFFE, 0x0010)],
        FOUR_OR_MORE,
        &[Wide(Hl, 2, OF_B, 0x0002, 0x0013)],
    ),
    Returns(
        &[],
        &[Based(Hl, 1, OF_NOTHING, De, 0x0010, 0)],
        LESS_C,
        &[Based(Hl, 1, OF_C, De, 0x0014, 0)],
    ),
    Returns(
        &[B],
        &[Based(Hl, 1, OF_B, De, 0x0010, 0)],
        FOUR_ON,
        &[Based(Hl, 1, OF_B, De, 0x0014, 0)],
    ),
    // Both read something: HL, which was C100 to C1FF, is put in.
    Returns(
        &[B],
        &[Word(Hl, 0xC100, 0xC1FF), Link(Hl, 1, OF_B, 0xC200)],
        LESS_C,
        &[Wide(Hl, 1, OF_C, 0xC104, 0x00FF)],
    ),
    // What the caller's link reads isn't given back: HL's bounds are left.
    Returns(
        &[C],
        &[Word(Hl, 0xC0F0, 0xC0FF), Link(Hl, 1, OF_B, 0xC100)],
        FOUR_ON,
        &[Word(Hl, 0xC0F4, 0xC103)],
    ),
    // Widths of FFFF together, and of 10000.
    Returns(
        &[B],
        &[Wide(Hl, 1, OF_B, 0xC100, 0xFFFC)],
        FOUR_OR_MORE,
        &[Wide(Hl, 1, OF_B, 0xC104, 0xFFFF)],
    ),
    Returns(
        &[B],
        &[Wide(Hl, 1, OF_B, 0xC100, 0xFFFD)],
        FOUR_OR_MORE,
        &[],
    ),
    // Each pair by its own: BC is 3 more than DE was.
    Returns(
        &[A],
        &[Link(De, 1, OF_A, 0x0020), Link(Bc, 1, OF_A, 0x0030)],
        &[Based(Bc, 1, OF_NOTHING, De, 0x0003, 0)],
        &[Link(Bc, 1, OF_A, 0x0023)],
    ),
    // By the caller's own entry: HL is what DE was there.
    Returns(
        &[],
        &[Held(H, D), Held(L, E)],
        FOUR_ON,
        &[Based(Hl, 1, OF_NOTHING, De, 0x0004, 0)],
    ),
    Returns(
        &[],
        &[Held(H, H), Held(L, L), Word(Hl, 0xC100, 0xC1FF)],
        LESS_C,
        &[Based(Hl, 1, OF_C, Hl, 0x0004, 0)],
    ),
    Returns(&[], &[Held(H, D), Held(L, L)], FOUR_ON, &[]),
    // Its link comes first.
    Returns(
        &[B],
        &[Held(H, D), Held(L, E), Link(Hl, 1, OF_B, 0xC100)],
        FOUR_ON,
        &[Link(Hl, 1, OF_B, 0xC104)],
    ),
    // By bounds, where the exit's link reads something, and none where it doesn't.
    Returns(
        &[],
        &[Word(Hl, 0xC100, 0xC10F)],
        LESS_C,
        &[Wide(Hl, 1, OF_C, 0xC104, 0x000F)],
    ),
    Returns(
        &[],
        &[Word(Hl, 0x0000, 0x0100)],
        &[Based(Hl, 1, OF_C, Hl, 0x0004, 0xFF00)],
        &[],
    ),
    // A link of the exit without a base, or none: then the caller's, where all that it reads is given back.
    Returns(
        &[B],
        &[Link(Hl, 1, OF_B, 0xC100)],
        &[Link(Hl, 1, OF_C, 0xC200)],
        &[Link(Hl, 1, OF_C, 0xC200)],
    ),
    Returns(
        &[H, L],
        &[Based(Hl, 1, OF_NOTHING, De, 0x0004, 0)],
        &[],
        &[Based(Hl, 1, OF_NOTHING, De, 0x0004, 0)],
    ),
    Returns(&[H], &[Based(Hl, 1, OF_NOTHING, De, 0x0004, 0)], &[], &[]),
    Returns(&[H, L, C], &[Based(Hl, 1, OF_B, De, 0x0004, 0)], &[], &[]),
];

/// Bounds are cut by a link that reads nothing.
const CUT: &[BasedStep] = &[
    // Its width is added to HL's, which was C100 to C10F.
    Returns(
        &[],
        &[Word(Hl, 0xC100, 0xC10F)],
        FOUR_OR_MORE,
        &[Word(Hl, 0xC104, 0xC116)],
    ),
    // The exit's bounds hold too.
    Returns(
        &[],
        &[Byte(H, 0xC1, 0xC1), Byte(L, 0x00, 0x0F)],
        &[
            Word(Hl, 0xC108, 0xC1FF),
            Based(Hl, 1, OF_NOTHING, Hl, 0x0004, 0),
        ],
        &[Word(Hl, 0xC108, 0xC113)],
    ),
    // Another pair's bounds.
    Returns(
        &[],
        &[Word(Bc, 0x0010, 0x0020), Word(Hl, 0xC100, 0xC1FF)],
        &[Based(Hl, 1, OF_NOTHING, Bc, 0x0000, 0)],
        &[Word(Hl, 0x0010, 0x0020)],
    ),
    // What goes round cuts nothing, and all words don't.
    Returns(&[], &[Word(Hl, 0xFFF0, 0xFFFF)], FOUR_ON, &[]),
    Returns(
        &[],
        &[Word(Hl, 0x0000, 0x01FF)],
        &[Based(Hl, 1, OF_NOTHING, Hl, 0x0000, 0xFF00)],
        &[],
    ),
    Returns(&[], &[], FOUR_ON, &[]),
    // One that reads something leaves bounds as they are.
    Returns(
        &[],
        &[Word(Hl, 0xC100, 0xC10F)],
        &[Word(Hl, 0xC000, 0xC1FF), Based(Hl, 1, OF_C, Hl, 0x0000, 0)],
        &[Word(Hl, 0xC000, 0xC1FF), Wide(Hl, 1, OF_C, 0xC100, 0x000F)],
    ),
];

#[test]
fn a_word_at_entry_cuts_values(rt: HostRuntime) {
    play(&rt, REDUCED);
}

#[test]
fn a_word_at_entry_is_found(rt: HostRuntime) {
    play(&rt, COVERED);
}

#[test]
fn another_procedure_has_other_words_at_entry(rt: HostRuntime) {
    play(&rt, ENTERED);
}

#[test]
fn a_caller_puts_in_its_word(rt: HostRuntime) {
    play(&rt, PUT_IN);
    play(&rt, CUT);
}
