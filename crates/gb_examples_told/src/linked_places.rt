//! Where in a certificate a fault of a link is: its width, its base, and the byte of RAM that it reads. The least certificate of
//! version 4 gets a link in its last node, and the bytes that follow one another are changed.

use crate::places::{FIELD, LEFT_OVER, NODE, Step, least_in_version_4, play};
use gb_cert_place::block::Part;
use gb_cert_place::field::Field;
use gb_samples::cartridges::put;
use gb_samples::certificates::least_in_version_3;

/// A link of BC with A in the last node of version 4, after BC's bounds at 186, which are 0 to 1: its form is at 190, its factor at
/// 191, its sum at 192 and its width at 194. The width is 0; no link has one; a form has bit 5, or reads an item, with a width or without; and
/// the factor is 0. With a right width what is left over begins after the number of cells, and so it does
/// without one.
const WIDE_LINKS: &[Step] = &[
    (
        &[(184, 0x10), (188, 0x01), (190, 0x81), (191, 0x01)],
        (FIELD, NODE, Field::ToldWhole, 184, 196),
    ),
    (&[(190, 0x80)], (FIELD, NODE, Field::ToldWhole, 184, 191)),
    (&[(190, 0x21)], (FIELD, NODE, Field::ToldWhole, 184, 191)),
    (&[(190, 0x8C)], (FIELD, NODE, Field::ToldWhole, 184, 191)),
    (&[(190, 0x0C)], (FIELD, NODE, Field::ToldWhole, 184, 191)),
    (
        &[(190, 0x8A), (191, 0x00)],
        (FIELD, NODE, Field::ToldWhole, 184, 192),
    ),
    (
        &[(191, 0x01), (194, 0x01)],
        (LEFT_OVER, Part::End, Field::LeftOver, 197, 197),
    ),
    (
        &[(190, 0x01), (194, 0x00)],
        (LEFT_OVER, Part::End, Field::LeftOver, 195, 195),
    ),
];

#[test]
fn widths_of_links_are_found(rt: HostRuntime) {
    let mut bytes = [0; 200];
    put(&mut bytes, 0, &least_in_version_4());
    play(&rt, rt.alloc(), &mut bytes, WIDE_LINKS);
}

/// The same link with a base, which is at 192, after its factor, and before its sum. The base is a fourth pair; no link has one; a form
/// reads nothing else and has no base, without a width and with one; or an item; or has bit 5. With a right base what is left
/// over begins after the number of cells. Where nothing else is read the base is at 191: it is one, with a width or without, and is a
/// fourth pair.
const BASED_LINKS: &[Step] = &[
    (
        &[
            (184, 0x10),
            (188, 0x01),
            (190, 0x41),
            (191, 0x01),
            (192, 0x03),
        ],
        (FIELD, NODE, Field::ToldWhole, 184, 193),
    ),
    (&[(190, 0x40)], (FIELD, NODE, Field::ToldWhole, 184, 191)),
    (&[(190, 0x0D)], (FIELD, NODE, Field::ToldWhole, 184, 191)),
    (&[(190, 0x8D)], (FIELD, NODE, Field::ToldWhole, 184, 191)),
    (&[(190, 0x4C)], (FIELD, NODE, Field::ToldWhole, 184, 191)),
    (&[(190, 0x61)], (FIELD, NODE, Field::ToldWhole, 184, 191)),
    (
        &[(190, 0x41), (192, 0x02)],
        (LEFT_OVER, Part::End, Field::LeftOver, 196, 196),
    ),
    (
        &[(190, 0x4D), (192, 0x00)],
        (LEFT_OVER, Part::End, Field::LeftOver, 195, 195),
    ),
    (
        &[(190, 0xCD), (194, 0x01)],
        (LEFT_OVER, Part::End, Field::LeftOver, 197, 197),
    ),
    (&[(191, 0x03)], (FIELD, NODE, Field::ToldWhole, 184, 192)),
];

#[test]
fn bases_of_links_are_found(rt: HostRuntime) {
    let mut bytes = [0; 200];
    put(&mut bytes, 0, &least_in_version_4());
    play(&rt, rt.alloc(), &mut bytes, BASED_LINKS);
}

/// The same link with a byte of RAM instead: the byte's address is at 191, the factor at 193, and the sum at 194. The address is in
/// the stack region, at its first and at its last byte; in video RAM; of a hardware register; and of IE; then it is the last before the
/// region, and the first in high RAM. The factor is 0. A base is a fourth pair, at 194. With a right one and a width, which is at 197,
/// the width is 0.
const CELL_LINKS: &[Step] = &[
    (
        &[
            (184, 0x10),
            (188, 0x01),
            (190, 0x0B),
            (191, 0x00),
            (192, 0xDF),
            (193, 0x01),
        ],
        (FIELD, NODE, Field::ToldWhole, 184, 193),
    ),
    (&[(191, 0xFF)], (FIELD, NODE, Field::ToldWhole, 184, 193)),
    (
        &[(191, 0x00), (192, 0x80)],
        (FIELD, NODE, Field::ToldWhole, 184, 193),
    ),
    (
        &[(191, 0x7F), (192, 0xFF)],
        (FIELD, NODE, Field::ToldWhole, 184, 193),
    ),
    (&[(191, 0xFF)], (FIELD, NODE, Field::ToldWhole, 184, 193)),
    (
        &[(192, 0xDE)],
        (LEFT_OVER, Part::End, Field::LeftOver, 197, 197),
    ),
    (
        &[(191, 0x80), (192, 0xFF)],
        (LEFT_OVER, Part::End, Field::LeftOver, 197, 197),
    ),
    (&[(193, 0x00)], (FIELD, NODE, Field::ToldWhole, 184, 194)),
    (
        &[(190, 0x4B), (193, 0x01), (194, 0x03)],
        (FIELD, NODE, Field::ToldWhole, 184, 195),
    ),
    (
        &[(190, 0xCB), (194, 0x02)],
        (FIELD, NODE, Field::ToldWhole, 184, 199),
    ),
];

#[test]
fn bytes_that_links_read_are_found(rt: HostRuntime) {
    let mut bytes = [0; 200];
    put(&mut bytes, 0, &least_in_version_4());
    play(&rt, rt.alloc(), &mut bytes, CELL_LINKS);
}

/// The same link in the last node of version 3, after BC's bounds at 167: the form of one with a width isn't one there, and those of
/// one with a base and of one that reads a byte of RAM aren't either.
const THIRD_LINKS: &[Step] = &[
    (
        &[(166, 0x10), (169, 0x01), (171, 0x81), (172, 0x01)],
        (FIELD, NODE, Field::Told, 166, 172),
    ),
    (&[(171, 0x41)], (FIELD, NODE, Field::Told, 166, 172)),
    (&[(171, 0x0B)], (FIELD, NODE, Field::Told, 166, 172)),
    (
        &[(171, 0x01)],
        (LEFT_OVER, Part::End, Field::LeftOver, 176, 176),
    ),
];

#[test]
fn version_3_has_no_widths_no_bases_and_no_bytes_that_links_read(rt: HostRuntime) {
    let mut bytes = [0; 200];
    put(&mut bytes, 0, &least_in_version_3());
    play(&rt, rt.alloc(), &mut bytes, THIRD_LINKS);
}
