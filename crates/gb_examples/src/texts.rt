//! Sinks, and the lines that are written of headers.

use gb_samples::cartridges::{PLAIN, Sizes, file, put, small};
use gb_samples::programs::LOOP;
use gb_samples::streams::FailingWriter;
use gb_text::kept_bytes::KeptBytes;
use gb_text::put::put_all;
use gb_text::sink::{OutFault, Plain, Sink};
use gb_text::{HeaderFault, Rom};
use gb_witness::{header_bytes, header_line};
use std::test::Fail;

#[test]
fn a_plain_sink_hands_on_what_its_writer_takes(rt: HostRuntime) {
    let mut out = Plain::new(Vec::new(rt.alloc()));
    match out.put(b"GB") {
        Ok(taken) => {
            assert!(rt; taken == 2);
            assert!(rt; !out.failed());
        }
        // The vector found no room.
        Err(_) => assert!(rt; out.failed()),
    }
}

/// A writer that takes five bytes and then fails.
#[test]
fn a_plain_sink_fails_with_its_writer(rt: HostRuntime) {
    let mut out = Plain::new(FailingWriter::new(5));
    assert!(rt; put_all(&mut out, b"ACCEPTED") == Err(OutFault));
    assert!(rt; out.failed());
    let mut out = Plain::new(FailingWriter::new(8));
    assert!(rt; put_all(&mut out, b"ACCEPTED") == Ok(()));
    assert!(rt; !out.failed());
}

/// A file's length and sizes, and the line on its header.
const LINES: [(usize, Sizes, &[u8]); 3] = [
    (
        0x8000,
        PLAIN,
        b"type 00 ROM rom 2 ram 0 clock no checksum E7\n",
    ),
    (
        0x800000,
        [0x19, 0x08, 0x00],
        b"type 19 MBC5 rom 512 ram 0 clock no checksum C6\n",
    ),
    (
        0x8000,
        [0x10, 0x00, 0x03],
        b"type 10 MBC3 rom 2 ram 4 clock yes checksum D4\n",
    ),
];

#[test]
fn header_lines(rt: HostRuntime) -> Result<(), Fail> {
    for (length, sizes, line) in LINES {
        assert!(rt; length >= 0x150);
        let bytes = file(rt.alloc(), length, sizes, &[])?;
        let rom = Rom::parse(bytes.as_slice())?;
        let mut out = KeptBytes::new(96, 96);
        assert!(rt; header_line(&rom, &mut out) == Ok(()));
        assert!(rt; out.kept() == line);
    }
    Ok(())
}

const HEADER: &[u8] = b"type 00 ROM rom 2 ram 0 clock no checksum E7\n";

/// A file's size, type and checksum, its fault, and what is written.
const FAULTS: [(usize, u8, u8, Option<HeaderFault>, &[u8]); 4] = [
    (0x8000, 0x00, 0xE7, None, HEADER),
    (
        0x8000,
        0x00,
        0xE6,
        Some(HeaderFault::Checksum),
        b"CARTRIDGE H7\n",
    ),
    (
        0x8000,
        0x05,
        0xE6,
        Some(HeaderFault::Type),
        b"CARTRIDGE H2\n",
    ),
    (
        0x7FFF,
        0x05,
        0xE6,
        Some(HeaderFault::TooShort),
        b"CARTRIDGE H1\n",
    ),
];

/// Whether a file's line is written, and this is answered.
fn gives(file: &[u8], fault: Option<HeaderFault>, line: &[u8]) -> bool {
    let mut out = KeptBytes::new(96, 96);
    header_bytes(file, &mut out) == Ok(fault) && out.kept() == line
}

/// Whether a sink that takes so many bytes has the beginning of a file's line.
fn gives_beginning(file: &[u8], line: &[u8], most: usize) -> bool {
    let mut out = KeptBytes::new(5, most);
    header_bytes(file, &mut out) == Err(OutFault) && Some(out.kept()) == line.get(..most)
}

#[test]
fn a_file_gives_its_header_or_its_fault(rt: HostRuntime) {
    for (size, kind, checksum, fault, line) in FAULTS {
        let mut bytes = small(PLAIN, LOOP);
        put(&mut bytes, 0x147, &[kind]);
        put(&mut bytes, 0x14D, &[checksum]);
        let file = bytes.get(..size).unwrap_or(&[]);
        assert!(rt; gives(file, fault, line));
        for most in 0..line.len() {
            assert!(rt; gives_beginning(file, line, most), "at {most}");
        }
    }
}
