//! Places of faults. An example is a list of steps, which one function plays.

use gb_cert_place::CertFault;
use gb_cert_place::block::Part;
use gb_cert_place::field::{Field, Owner};
use gb_cert_place::place::{FaultPlace, Sought, fault_place};
use gb_ops::op::Register;
use gb_samples::cartridges::{put, replace};
use gb_samples::certificates::{least, least_in_version_3};
use std::alloc::Global;
use std::process::Abort;
use std::test::Fail;

/// A fault, its part and its field, the field's first byte, and where reading stops.
pub type Place = (CertFault, Part, Field, usize, usize);

/// Bytes that are replaced, and where the fault is then.
pub type Step = (&'static [(usize, u8)], Place);

/// Whether the fault of these bytes is there.
fn is_at(alloc: Global, bytes: &[u8], place: &Place) -> bool {
    let (fault, part, field, offset, end) = *place;
    let expected = FaultPlace {
        fault,
        part,
        field,
        offset,
        end,
    };
    fault_place(alloc, bytes) == Sought::Fault(expected)
}

/// Plays steps on the same bytes.
pub fn play(rt: &impl Abort, alloc: Global, bytes: &mut [u8], steps: &[Step]) {
    for (i, (changes, place)) in steps.iter().enumerate() {
        replace(bytes, changes);
        assert!(rt; is_at(alloc, bytes, place), "step {i}");
    }
}

/// Whether the least certificate with these bytes replaced has its fault there.
fn is_least_at(alloc: Global, step: &Step) -> bool {
    let mut bytes = least();
    replace(&mut bytes, step.0);
    is_at(alloc, &bytes, &step.1)
}

const HEAD: Part = Part::Head;

const MAIN: Part = Part::Procedure(0);

pub const NODE: Part = Part::Node(2);

const CUT_SHORT: CertFault = CertFault::CutShort;

const MAGIC: CertFault = CertFault::Magic;

const VERSION: CertFault = CertFault::Version;

const COUNT: CertFault = CertFault::Count;

pub const FIELD: CertFault = CertFault::Field;

const ORDER: CertFault = CertFault::Order;

const REGION: CertFault = CertFault::Region;

pub const LEFT_OVER: CertFault = CertFault::LeftOver;

/// The greatest of A.
const A: Field = Field::ValueGreatest(Owner::Register(Register::A));

/// The least certificate with bytes replaced.
const CHANGED: [Step; 23] = [
    // The fault falls on the changed field, and reading stops after it.
    (&[(0, 0x48)], (MAGIC, HEAD, Field::Magic, 0, 4)),
    (&[(4, 0x00)], (VERSION, HEAD, Field::Version, 4, 5)),
    (&[(7, 0xFE)], (REGION, HEAD, Field::RegionLast, 7, 9)),
    (&[(9, 0x00)], (FIELD, HEAD, Field::ProcedureCount, 9, 10)),
    (&[(10, 0x00)], (FIELD, HEAD, Field::NodeCount, 10, 12)),
    (&[(12, 0x03)], (FIELD, MAIN, Field::Entry, 12, 14)),
    (&[(14, 0x81)], (REGION, MAIN, Field::Need, 14, 16)),
    (&[(16, 0x09)], (COUNT, MAIN, Field::RangeCount, 16, 17)),
    (&[(17, 0x01)], (FIELD, MAIN, Field::Returns, 17, 18)),
    (&[(112, 0x01)], (FIELD, NODE, Field::Procedure, 112, 113)),
    (&[(113, 0x00)], (ORDER, NODE, Field::Address, 113, 115)),
    (&[(117, 0x00)], (FIELD, NODE, Field::ImeSet, 117, 118)),
    (&[(117, 0x08)], (FIELD, NODE, Field::ImeSet, 117, 118)),
    (
        &[(118, 0xA2)],
        (FIELD, NODE, Field::TransferBound, 118, 119),
    ),
    (&[(121, 0x01)], (FIELD, NODE, Field::TestValue, 121, 122)),
    (&[(128, 0x00)], (FIELD, NODE, Field::GateSet, 128, 129)),
    // The test of two fields falls on the later one: the greatest of A, after the least at 136.
    (&[(136, 0x02)], (FIELD, NODE, A, 137, 138)),
    (&[(157, 0x01)], (FIELD, NODE, Field::ItemCount, 157, 158)),
    (&[(158, 0x21)], (COUNT, NODE, Field::CellCount, 158, 159)),
    // A stack that is set, and seventeen words on it.
    (
        &[(119, 0x01), (157, 0x11)],
        (COUNT, NODE, Field::ItemCount, 157, 158),
    ),
    // Two nodes are announced, and there are three: the third is left over, from byte 112 on.
    (
        &[(10, 0x02)],
        (LEFT_OVER, Part::End, Field::LeftOver, 112, 112),
    ),
    // Four nodes are announced, or a cell, and the file ends before.
    (
        &[(10, 0x04)],
        (CUT_SHORT, Part::Node(3), Field::Procedure, 159, 159),
    ),
    (
        &[(158, 0x01)],
        (CUT_SHORT, NODE, Field::CellAddress(0), 159, 159),
    ),
];

#[test]
fn changed_bytes_are_found(rt: HostRuntime) {
    for (i, step) in CHANGED.iter().enumerate() {
        assert!(rt; is_least_at(rt.alloc(), step), "row {i}");
    }
}

/// Changed bytes of the certificate in version 3, with what their faults say.
const CHANGED_THIRD: [Step; 10] = [
    (&[(3, 0x59)], (MAGIC, HEAD, Field::Magic, 0, 4)),
    (&[(4, 0x02)], (VERSION, HEAD, Field::Version, 4, 5)),
    (&[(18, 0x02)], (FIELD, MAIN, Field::Base, 18, 20)),
    // A need of 512 bytes, and a range of main.
    (&[(21, 0x02)], (REGION, MAIN, Field::Need, 20, 22)),
    (&[(22, 0x01)], (COUNT, MAIN, Field::RangeCount, 22, 23)),
    (
        &[(146, 0x0C)],
        (
            FIELD,
            NODE,
            Field::ValueOrigin(Owner::Register(Register::A)),
            146,
            147,
        ),
    ),
    // An item, of which two bytes are there.
    (
        &[(127, 0x01), (165, 0x01)],
        (
            CUT_SHORT,
            NODE,
            Field::ValueOrigin(Owner::Item(0)),
            168,
            168,
        ),
    ),
    // What is there: a part that there isn't, and places that hold one byte, of which there is none.
    (&[(166, 0x80)], (FIELD, NODE, Field::Told, 166, 167)),
    (&[(166, 0x01)], (FIELD, NODE, Field::Told, 166, 168)),
    (&[(167, 0x41)], (COUNT, NODE, Field::CellCount, 167, 168)),
];

/// Whether the least certificate of version 3 with these bytes replaced has its fault there.
fn is_third_at(alloc: Global, step: &Step) -> bool {
    let mut bytes = least_in_version_3();
    replace(&mut bytes, step.0);
    is_at(alloc, &bytes, &step.1)
}

#[test]
fn changed_bytes_of_version_3_are_found(rt: HostRuntime) {
    for (i, step) in CHANGED_THIRD.iter().enumerate() {
        assert!(rt; is_third_at(rt.alloc(), step), "row {i}");
    }
}

/// The least certificate in version 4, which counts procedures in two bytes, with a fact behind the head, at 17: C000 holds
/// 00 to 03. Main, at 25, keeps no addresses and has no mark, and its nodes, at 37, 87 and 137, take two bytes each for their
/// procedure and for what is there.
pub fn least_in_version_4() -> [u8; 187] {
    let mut bytes = [0; 187];
    let third = least_in_version_3();
    put(&mut bytes, 0, &third[..9]);
    put(
        &mut bytes,
        4,
        &[
            0x04, 0x00, 0xDF, 0xFF, 0xDF, 0x01, 0x00, 0x03, 0x00, 0x00, 0x00, 0x01, 0x00, 0x00,
            0xC0, 0x00, 0xC0, 0x01, 0x00, 0x03, 0x00,
        ],
    );
    put(&mut bytes, 29, &[0x00, 0xE0]);
    for node in 0..3usize {
        put(
            &mut bytes,
            39 + 50 * node,
            &third[25 + 48 * node..69 + 48 * node],
        );
    }
    bytes
}

/// The bytes before a place.
fn front(bytes: &[u8], end: usize) -> &[u8] {
    bytes.get(..end).unwrap_or(&[])
}

/// Puts the bytes of a certificate from one place to before another one.
fn put_part(bytes: &mut [u8], at: usize, whole: &[u8], from: usize, end: usize) {
    let part = front(whole, end).get(from..).unwrap_or(&[]);
    put(bytes, at, part);
}

const FACT: Part = Part::Fact(0);

/// A's origin and its low bits.
const A_TAG: Field = Field::ValueTag(Owner::Register(Register::A));

/// Changed bytes of the certificate in version 4.
const CHANGED_FOURTH: [Step; 27] = [
    (&[(3, 0x43)], (VERSION, HEAD, Field::Version, 4, 5)),
    (&[(9, 0x00)], (FIELD, HEAD, Field::ProcedureCount, 9, 11)),
    (&[(13, 0x10)], (COUNT, HEAD, Field::NodeCount, 11, 15)),
    // 4,353 facts, where there may be 4,096.
    (
        &[(15, 0x01), (16, 0x11)],
        (COUNT, HEAD, Field::FactCount, 15, 17),
    ),
    // A second fact is main's entry and base.
    (
        &[(15, 0x02)],
        (FIELD, Part::Fact(1), Field::FactLast, 27, 29),
    ),
    // A fact's addresses meet the stack region; it has no step, or one that leads past the last address.
    (&[(20, 0xDF)], (FIELD, FACT, Field::FactLast, 19, 21)),
    (&[(21, 0x00)], (FIELD, FACT, Field::FactStep, 21, 22)),
    (
        &[(19, 0x01), (21, 0x02)],
        (FIELD, FACT, Field::FactStep, 21, 22),
    ),
    // It leaves no byte out, or its bounds differ in a low bit that is known.
    (&[(23, 0xFF)], (FIELD, FACT, Field::FactGreatest, 23, 24)),
    (&[(24, 0x01)], (FIELD, FACT, Field::FactLowBits, 24, 25)),
    (&[(25, 0x03)], (FIELD, MAIN, Field::Entry, 25, 29)),
    (&[(29, 0x02)], (FIELD, MAIN, Field::Base, 29, 31)),
    (&[(32, 0x02)], (REGION, MAIN, Field::Need, 31, 33)),
    (&[(33, 0x01)], (COUNT, MAIN, Field::RangeCount, 33, 34)),
    // Main keeps no address.
    (&[(34, 0x01)], (COUNT, MAIN, Field::KeptCount, 34, 35)),
    (&[(36, 0x01)], (FIELD, MAIN, Field::Returns, 36, 37)),
    (&[(138, 0x01)], (FIELD, NODE, Field::Procedure, 137, 139)),
    (&[(139, 0x00)], (ORDER, NODE, Field::Address, 139, 141)),
    (&[(142, 0x02)], (FIELD, NODE, Field::Bank, 141, 143)),
    (&[(156, 0x20)], (FIELD, NODE, Field::Kept, 156, 157)),
    // A single A has no low bits, and main keeps no address that A could come from.
    (&[(164, 0x21)], (FIELD, NODE, A_TAG, 164, 165)),
    (&[(164, 0x0C)], (FIELD, NODE, A_TAG, 164, 165)),
    // What is there: parts that there aren't.
    (&[(184, 0x80)], (FIELD, NODE, Field::ToldWhole, 184, 185)),
    (&[(185, 0x08)], (FIELD, NODE, Field::ToldWhole, 184, 186)),
    // A level is there, of which one byte is.
    (
        &[(185, 0x02)],
        (CUT_SHORT, NODE, Field::ToldWhole, 184, 187),
    ),
    (&[(186, 0x41)], (COUNT, NODE, Field::CellCount, 186, 187)),
    // Two nodes are announced, and the third is left over.
    (
        &[(11, 0x02)],
        (LEFT_OVER, Part::End, Field::LeftOver, 137, 137),
    ),
];

/// Whether the least certificate of version 4 with these bytes replaced has its fault there.
fn is_fourth_at(alloc: Global, step: &Step) -> bool {
    let mut bytes = least_in_version_4();
    replace(&mut bytes, step.0);
    is_at(alloc, &bytes, &step.1)
}

#[test]
fn changed_bytes_of_version_4_are_found(rt: HostRuntime) {
    for (i, step) in CHANGED_FOURTH.iter().enumerate() {
        assert!(rt; is_fourth_at(rt.alloc(), step), "row {i}");
    }
}

/// Where node 2 says the level and the fills, from 186 on: level 2, where there is one fact; level 0 and no fill; and nine
/// fills.
const LEVELS: &[Step] = &[
    (
        &[(185, 0x02), (186, 0x02)],
        (FIELD, NODE, Field::ToldWhole, 184, 188),
    ),
    (&[(186, 0x00)], (FIELD, NODE, Field::ToldWhole, 184, 189)),
    (&[(188, 0x09)], (COUNT, NODE, Field::ToldWhole, 184, 189)),
    // Level 1, and a fill whose end has a number that there isn't; then the fill leaves no byte out.
    (
        &[
            (186, 0x01),
            (188, 0x01),
            (190, 0xC0),
            (192, 0xC0),
            (193, 0x09),
        ],
        (FIELD, NODE, Field::ToldWhole, 184, 194),
    ),
    (
        &[(193, 0x00), (195, 0xFF)],
        (FIELD, NODE, Field::ToldWhole, 184, 196),
    ),
    // With a right fill what is left over begins after the number of cells.
    (
        &[(195, 0x7F)],
        (LEFT_OVER, Part::End, Field::LeftOver, 197, 197),
    ),
];

#[test]
fn what_is_said_of_the_whole_program_is_found(rt: HostRuntime) {
    let mut bytes = [0; 200];
    put(&mut bytes, 0, &least_in_version_4());
    play(&rt, rt.alloc(), &mut bytes, LEVELS);
}

/// Where node 2 says where SP points, from 186 on: its stack isn't set; then the bounds aren't in order; and then IME may be
/// pending.
const ASIDE: &[Step] = &[
    (&[(185, 0x04)], (FIELD, NODE, Field::ToldWhole, 184, 186)),
    (
        &[(145, 0x01), (186, 0x01)],
        (FIELD, NODE, Field::ToldWhole, 184, 190),
    ),
    (&[(143, 0x03)], (FIELD, NODE, Field::ToldWhole, 184, 186)),
];

#[test]
fn a_stack_put_aside_is_found(rt: HostRuntime) {
    let mut bytes = [0; 200];
    put(&mut bytes, 0, &least_in_version_4());
    play(&rt, rt.alloc(), &mut bytes, ASIDE);
}

/// Where node 2 has one item, FF at the most, from 184 on, and says at 188 that it is a place of the one byte: there is no one
/// byte; an address is announced too; then A and the item hold it, but there is no second item. The one item alone is right,
/// and what is left over begins after the number of cells. Without items there is none to name.
const ITEM_STEPS: &[Step] = &[
    (
        &[(145, 0x01), (183, 0x01), (185, 0xFF), (188, 0x08)],
        (FIELD, NODE, Field::ToldWhole, 187, 189),
    ),
    (&[(187, 0x03)], (FIELD, NODE, Field::ToldWhole, 187, 189)),
    (
        &[(187, 0x01), (189, 0x01), (190, 0x01)],
        (FIELD, NODE, Field::ToldWhole, 187, 191),
    ),
    (
        &[(189, 0x00), (190, 0x00)],
        (LEFT_OVER, Part::End, Field::LeftOver, 192, 192),
    ),
    (
        &[(183, 0x00), (184, 0x01), (185, 0x08)],
        (FIELD, NODE, Field::ToldWhole, 184, 186),
    ),
];

#[test]
fn an_item_that_holds_the_one_byte_is_found(rt: HostRuntime) {
    let mut bytes = [0; 200];
    put(&mut bytes, 0, &least_in_version_4());
    play(&rt, rt.alloc(), &mut bytes, ITEM_STEPS);
}

/// A second procedure at 37: entry 1, no base, no need, no range; it keeps C010 and C020, at 47, has the mark 2, and an
/// exit, at 53.
const SECOND_IN_VERSION_4: [u8; 16] = [
    0x01, 0x00, 0x00, 0x00, 0x00, 0x00, 0x00, 0x00, 0x00, 0x02, 0x10, 0xC0, 0x20, 0xC0, 0x02, 0x01,
];

const NAMED: Part = Part::Procedure(1);

const EXIT: Part = Part::Exit(1);

/// The exit has no stack set. A may come from one of two kept addresses, by the numbers 12 and 13; there is no third. An
/// address is known of no byte. The kept addresses don't ascend, or one lies in the stack region; and seventeen are too many.
const NAMED_STEPS: &[Step] = &[
    (&[(9, 0x02)], (FIELD, EXIT, Field::StackSet, 55, 56)),
    (&[(55, 0x01), (74, 0x0E)], (FIELD, EXIT, A_TAG, 74, 75)),
    (
        &[(74, 0x0D), (94, 0x02)],
        (FIELD, EXIT, Field::ToldWhole, 94, 95),
    ),
    (&[(49, 0x10)], (ORDER, NAMED, Field::KeptAddress(1), 49, 51)),
    (&[(48, 0xDF)], (FIELD, NAMED, Field::KeptAddress(0), 47, 49)),
    (&[(46, 0x11)], (COUNT, NAMED, Field::KeptCount, 46, 47)),
];

/// The exit is node 0's state.
#[test]
fn what_a_procedure_names_is_found(rt: HostRuntime) {
    let mut bytes = [0; 240];
    let node = least_in_version_4();
    put_part(&mut bytes, 0, &node, 0, 37);
    put(&mut bytes, 37, &SECOND_IN_VERSION_4);
    put_part(&mut bytes, 53, &node, 43, 87);
    play(&rt, rt.alloc(), &mut bytes, NAMED_STEPS);
    // A file that ends behind the kept addresses.
    assert!(rt;
        is_at(
            rt.alloc(),
            front(&bytes, 46),
            &(CUT_SHORT, NAMED, Field::KeptCount, 46, 46)
        )
    );
}

/// In the node of a procedure that keeps two addresses A may come from the second one, and from no third; in main's from none.
const KEPT: &[Step] = &[
    (&[(224, 0x0E)], (FIELD, NODE, A_TAG, 224, 225)),
    (
        &[(224, 0x0D), (174, 0x0C)],
        (FIELD, Part::Node(1), A_TAG, 174, 175),
    ),
];

/// The second procedure, with a right exit, and its node at 197, behind two nodes of main.
#[test]
fn what_a_procedure_names_counts_in_its_nodes(rt: HostRuntime) {
    let mut bytes = [0; 247];
    let fourth = least_in_version_4();
    put_part(&mut bytes, 0, &fourth, 0, 37);
    put(&mut bytes, 9, &[0x02]);
    put(&mut bytes, 37, &SECOND_IN_VERSION_4);
    put(&mut bytes, 37, &[0x02]);
    put_part(&mut bytes, 53, &fourth, 43, 87);
    put(&mut bytes, 55, &[0x01]);
    put_part(&mut bytes, 97, &fourth, 37, 187);
    put(&mut bytes, 197, &[0x01]);
    put(&mut bytes, 205, &[0x01]);
    put(&mut bytes, 224, &[0x0D]);
    assert!(rt; fault_place(rt.alloc(), &bytes) == Sought::Certificate);
    play(&rt, rt.alloc(), &mut bytes, KEPT);
}

/// Procedure 1 begins at 0150 and procedure 2 at 0101; then main's entry is a node of procedure 1, which is found first.
const ENTRIES: &[Step] = &[
    (&[(9, 0x03)], (ORDER, Part::End, Field::Entries, 211, 211)),
    (&[(25, 0x01)], (FIELD, Part::End, Field::Entries, 211, 211)),
];

/// Two procedures more, at 37 and 49, and the nodes at 61: one each, with a stack that is set.
#[test]
fn entries_out_of_order_are_found(rt: HostRuntime) {
    let mut bytes = [0; 211];
    let fourth = least_in_version_4();
    put_part(&mut bytes, 0, &fourth, 0, 37);
    put(&mut bytes, 37, &[0x01]);
    put(&mut bytes, 49, &[0x02]);
    put_part(&mut bytes, 61, &fourth, 37, 187);
    put(&mut bytes, 111, &[0x01, 0x00, 0x50, 0x01]);
    put(&mut bytes, 119, &[0x01]);
    put(&mut bytes, 161, &[0x02, 0x00, 0x01, 0x01]);
    put(&mut bytes, 169, &[0x01]);
    play(&rt, rt.alloc(), &mut bytes, ENTRIES);
}

/// Whether a certificate that is cut stops at its end, in the field that isn't whole.
fn is_cut(alloc: Global, bytes: &[u8]) -> bool {
    let length = bytes.len();
    match fault_place(alloc, bytes) {
        Sought::Fault(place) => {
            place.fault == CertFault::CutShort
                && place.end == length
                && place.offset <= length
                && length - place.offset < 4
        }
        _ => false,
    }
}

#[test]
fn cuts_stop_at_their_end(rt: HostRuntime) {
    let bytes = least();
    for length in 0..159usize {
        assert!(rt; is_cut(rt.alloc(), &bytes[..length]), "{length}");
    }
}

const ONE_MORE: &[Step] = &[(&[], (LEFT_OVER, Part::End, Field::LeftOver, 159, 159))];

/// The whole is a certificate; one byte more is left over, and is the first after it.
#[test]
fn one_byte_more(rt: HostRuntime) {
    let mut bytes = [0; 160];
    put(&mut bytes, 0, &least());
    assert!(rt; fault_place(rt.alloc(), &least()) == Sought::Certificate);
    assert!(rt; fault_place(rt.alloc(), &least_in_version_4()) == Sought::Certificate);
    play(&rt, rt.alloc(), &mut bytes, ONE_MORE);
}

/// The procedure's count of ranges is then at 20, where node 0's address has its high byte, 01; its range, from 0000 to
/// 0001, isn't in RAM, which falls on the later field.
const LEAST_IN_VERSION_2: Step = (&[(4, 0x02)], (FIELD, MAIN, Field::RangeLast(0), 23, 25));

/// 1,048,577 nodes, and 1,048,576 of which none is there.
const HEADS: &[Step] = &[
    (
        &[(4, 0x02), (10, 0x01), (11, 0x00), (12, 0x10), (13, 0x00)],
        (COUNT, HEAD, Field::NodeCount, 10, 14),
    ),
    (&[(10, 0x00)], (CUT_SHORT, MAIN, Field::Entry, 14, 14)),
];

/// In version 2 the numbers of nodes have four bytes.
#[test]
fn numbers_of_version_2_are_longer(rt: HostRuntime) {
    assert!(rt; is_least_at(rt.alloc(), &LEAST_IN_VERSION_2));
    let mut head = [0; 14];
    put(&mut head, 0, &least()[..10]);
    play(&rt, rt.alloc(), &mut head, HEADS);
}

/// A second procedure at 18: entry 1, no need, a range from C000 to C0FF at 23, and an exit at 28.
const SECOND: [u8; 10] = [0x01, 0x00, 0x00, 0x00, 0x01, 0x00, 0xC0, 0xFF, 0xC0, 0x01];

/// The exit has no stack set; with one, a word on it; then the range ends before it begins.
const EXITS: &[Step] = &[
    (
        &[(9, 0x02)],
        (FIELD, Part::Exit(1), Field::StackSet, 30, 31),
    ),
    (
        &[(30, 0x01), (68, 0x01)],
        (FIELD, Part::Exit(1), Field::ItemCount, 68, 69),
    ),
    (
        &[(26, 0xBF)],
        (FIELD, Part::Procedure(1), Field::RangeLast(0), 25, 27),
    ),
];

/// The exit is node 0's state.
#[test]
fn exits_and_ranges_are_found(rt: HostRuntime) {
    let mut bytes = [0; 200];
    let node = least();
    put(&mut bytes, 0, &node[..18]);
    put(&mut bytes, 18, &SECOND);
    put(&mut bytes, 28, &node[23..65]);
    play(&rt, rt.alloc(), &mut bytes, EXITS);
}

/// A word, and a cell at DF23, as they are from 157 on.
const WORD_AND_CELL: [u8; 13] = [
    0x01, 0x01, 0x02, 0x03, 0xFF, 0x00, 0x00, 0x01, 0x23, 0xDF, 0x05, 0x06, 0x01,
];

/// The word's low byte has its least over its greatest, which is at 162; then the cell's address, at 165, is in the stack
/// region, and then the cell has an origin that there isn't.
const ITEMS: &[Step] = &[
    (
        &[(119, 0x01)],
        (
            FIELD,
            NODE,
            Field::ValueGreatest(Owner::ItemLow(0)),
            162,
            163,
        ),
    ),
    (
        &[(162, 0xFF)],
        (FIELD, NODE, Field::CellAddress(0), 165, 167),
    ),
    (
        &[(166, 0xC1), (169, 0x0A)],
        (FIELD, NODE, Field::ValueOrigin(Owner::Cell(0)), 169, 170),
    ),
];

/// Node 2 with one word and one cell, as the checker's examples have it.
#[test]
fn items_and_cells_are_found(rt: HostRuntime) {
    let mut bytes = [0; 170];
    put(&mut bytes, 0, &least());
    put(&mut bytes, 157, &WORD_AND_CELL);
    play(&rt, rt.alloc(), &mut bytes, ITEMS);
}

const ANOTHER: &[Step] = &[(&[(9, 0x02)], (FIELD, Part::End, Field::Entries, 165, 165))];

/// A procedure 1 whose entry is main's node 2: each field alone is right, and it is found after the last node.
#[test]
fn an_entry_of_another_procedure(rt: HostRuntime) {
    let mut bytes = [0; 165];
    let all = least();
    put(&mut bytes, 0, &all[..18]);
    put(&mut bytes, 18, &[0x02, 0x00, 0x00, 0x00, 0x00, 0x00]);
    put(&mut bytes, 24, &all[18..]);
    play(&rt, rt.alloc(), &mut bytes, ANOTHER);
}

/// Whether bytes have a fault whose place reads so.
fn has_text(alloc: Global, bytes: &[u8], text: &str) -> Result<bool, Fail> {
    let Sought::Fault(place) = fault_place(alloc, bytes) else {
        return Ok(false);
    };
    Ok(format!(in alloc; "{place}")?.as_str() == text)
}

/// Whether the least certificate with these bytes replaced has such a fault.
fn has_least_text(alloc: Global, changes: &[(usize, u8)], text: &str) -> Result<bool, Fail> {
    let mut bytes = least();
    replace(&mut bytes, changes);
    has_text(alloc, &bytes, text)
}

/// Whether a changed certificate of version 3 has this text.
fn has_third_text(alloc: Global, changes: &[(usize, u8)], text: &str) -> Result<bool, Fail> {
    let mut bytes = least_in_version_3();
    replace(&mut bytes, changes);
    has_text(alloc, &bytes, text)
}

/// Whether a changed certificate of version 4 has this text.
fn has_fourth_text(alloc: Global, changes: &[(usize, u8)], text: &str) -> Result<bool, Fail> {
    let mut bytes = least_in_version_4();
    replace(&mut bytes, changes);
    has_text(alloc, &bytes, text)
}

const IME_SET: &str = "C5 at byte 117 (0x75), node 2, IME set: a field is out of its range";

const GREATEST: &str = "C5 at byte 137 (0x89), node 2, greatest of A: a field is out of its range";

const BASE: &str = "C5 at byte 18 (0x12), procedure 0, base: a field is out of its range";

const KNOWN: &str =
    "C5 at byte 166 (0xa6), node 2, what is known of several parts together: a field is out of its range";

const STEP: &str = "C5 at byte 21 (0x15), fact 0, step: a field is out of its range";

const KEPT_ADDRESSES: &str =
    "C4 at byte 34 (0x22), procedure 0, number of kept addresses: a count is over its limit";

const TAG: &str =
    "C5 at byte 164 (0xa4), node 2, origin and low bits of A: a field is out of its range";

const SAID: &str =
    "C5 at byte 184 (0xb8), node 2, what is known of several parts together and said of the whole program: a field is out of its range";

/// A place as a person reads it.
#[test]
fn places_have_a_text(rt: HostRuntime) -> Result<(), Fail> {
    assert!(rt; has_least_text(rt.alloc(), &[(117, 0x08)], IME_SET)?);
    assert!(rt; has_least_text(rt.alloc(), &[(136, 0x02)], GREATEST)?);
    assert!(rt; has_third_text(rt.alloc(), &[(18, 0x02)], BASE)?);
    assert!(rt; has_third_text(rt.alloc(), &[(166, 0x80)], KNOWN)?);
    assert!(rt; has_fourth_text(rt.alloc(), &[(21, 0x00)], STEP)?);
    assert!(rt; has_fourth_text(rt.alloc(), &[(34, 0x01)], KEPT_ADDRESSES)?);
    assert!(rt; has_fourth_text(rt.alloc(), &[(164, 0x0C)], TAG)?);
    assert!(rt; has_fourth_text(rt.alloc(), &[(185, 0x08)], SAID)?);
    Ok(())
}

const GATE: Step = (&[(128, 0x00)], (FIELD, NODE, Field::GateSet, 128, 129));

/// The field behind the cells of the last node is read without memory in version 4 too.
const BEHIND_FACTS: Step = (&[(186, 0x41)], (COUNT, NODE, Field::CellCount, 186, 187));

/// Where memory is refused, nothing is said of bytes whose fields are right; a field that is wrong is found without
/// memory.
#[test]
fn is_found_or_wants_memory(rt: HostRuntime) {
    let found = fault_place(rt.alloc(), &least());
    assert!(rt; matches!(found, Sought::Certificate | Sought::NoMemory));
    assert!(rt; is_least_at(rt.alloc(), &GATE));
    let found = fault_place(rt.alloc(), &least_in_version_4());
    assert!(rt; matches!(found, Sought::Certificate | Sought::NoMemory));
    assert!(rt; is_fourth_at(rt.alloc(), &BEHIND_FACTS));
}
