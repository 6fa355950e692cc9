//! Verdicts on the least cartridge and its certificate, and on both with bytes replaced.

use gb_abs::reason::Reason;
use gb_cert::Cert;
use gb_samples::cartridges::{PLAIN, SMALLEST, replace, small};
use gb_samples::certificates::{least, write_nodes};
use gb_samples::programs::LOOP;
use gb_samples::streams::FailingWriter;
use gb_text::kept_bytes::KeptBytes;
use gb_text::line::Line;
use gb_text::sink::{OutFault, Plain, Sink};
use gb_verify::check::check;
use gb_verify::verdict::Verdict;
use gb_verify::verify::{Outcome, verify_bytes};
use gb_verify::{Rom, check_node};
use std::alloc::Global;
use std::process::Abort;
use std::test::Fail;

/// What is written of the least cartridge and its certificate.
const ACCEPTED: &[u8] = b"ACCEPTED nodes 3 procedures 1\n";

/// Offsets, each with the byte that stands there.
type Changes<'a> = &'a [(usize, u8)];

/// The least cartridge, which jumps to 0150 and stays there, with bytes replaced.
fn cartridge(changes: Changes<'_>) -> [u8; SMALLEST] {
    let mut bytes = small(PLAIN, LOOP);
    replace(&mut bytes, changes);
    bytes
}

/// Its certificate, with bytes replaced.
fn certificate(changes: Changes<'_>) -> [u8; 159] {
    let mut bytes = least();
    replace(&mut bytes, changes);
    bytes
}

/// The line of two files.
fn line_of(alloc: Global, rom: &[u8], cert: &[u8]) -> Line {
    let mut out = KeptBytes::new(96, 96);
    let _ = verify_bytes(alloc, rom, cert, &mut out);
    out.into_line()
}

/// Whether two files have this line.
fn is_line(alloc: Global, rom: &[u8], cert: &[u8], line: &[u8]) -> bool {
    line_of(alloc, rom, cert).as_slice() == line
}

/// Replaced bytes of the cartridge, how many of its bytes the file has, and the line.
const CARTRIDGES: [(Changes<'static>, usize, &[u8]); 8] = [
    (&[], 0x8000, ACCEPTED),
    // An undefined opcode, INC A, which leads to no node, and RST, where no stack is set.
    (&[(0x150, 0xD3)], 0x8000, b"REFUSED node 2 reason 5\n"),
    (&[(0x150, 0x3C)], 0x8000, b"REFUSED node 2 reason 14\n"),
    (&[(0x150, 0xFF)], 0x8000, b"REFUSED node 2 reason 8\n"),
    (&[(0x14D, 0xE6)], 0x8000, b"CARTRIDGE H7\n"),
    (&[(0x14D, 0xE6), (0x147, 0x05)], 0x8000, b"CARTRIDGE H2\n"),
    (&[(0x14D, 0xE6), (0x147, 0x05)], 0x7FFF, b"CARTRIDGE H1\n"),
    (&[], 0x7FFF, b"CARTRIDGE H1\n"),
];

#[test]
fn lines_of_cartridges(rt: HostRuntime) {
    for (i, (changes, length, line)) in CARTRIDGES.iter().enumerate() {
        let rom = cartridge(changes);
        let file = rom.get(..*length).unwrap_or(&[]);
        assert!(rt; is_line(rt.alloc(), file, &least(), line), "cartridge {i}");
    }
}

#[test]
fn certificates_of_other_lengths(rt: HostRuntime) {
    let rom = cartridge(&[]);
    let cert = least();
    for length in 0..159 {
        let is_cut = is_line(rt.alloc(), &rom, &cert[..length], b"CERTIFICATE C1\n");
        assert!(rt; is_cut, "{length} bytes");
    }
    let mut longer = [0; 160];
    write_nodes(&mut longer, &[0x0100, 0x0101, 0x0150]);
    assert!(rt; is_line(rt.alloc(), &rom, &longer, b"CERTIFICATE C8\n"));
}

/// Replaced bytes of the certificate, and its line.
type Replaced = (Changes<'static>, &'static [u8]);

/// Whether each certificate has its line.
fn play(rt: &impl Abort, alloc: Global, certificates: &[Replaced]) {
    let rom = cartridge(&[]);
    for (i, (changes, line)) in certificates.iter().enumerate() {
        assert!(rt;
            is_line(alloc, &rom, &certificate(changes), line),
            "certificate {i}"
        );
    }
}

/// What the bytes are that can't be read.
const UNREADABLE: &[Replaced] = &[
    (&[(0, 0x67)], b"CERTIFICATE C2\n"),
    // The version (2 takes numbers of nodes for four bytes, so that main has a range from 0000), the region's end, the
    // numbers of procedures and nodes.
    (&[(4, 0x00)], b"CERTIFICATE C3\n"),
    (&[(4, 0x02)], b"CERTIFICATE C5\n"),
    (&[(4, 0x03)], b"CERTIFICATE C3\n"),
    (&[(7, 0xFE)], b"CERTIFICATE C7\n"),
    (&[(9, 0x00)], b"CERTIFICATE C5\n"),
    (&[(10, 0x00)], b"CERTIFICATE C5\n"),
    (&[(10, 0x02)], b"CERTIFICATE C8\n"),
    (&[(10, 0x04)], b"CERTIFICATE C1\n"),
    // Main's entry, its need (over 4,096 words it is out of range first), its ranges, and that it returns.
    (&[(12, 0x03)], b"CERTIFICATE C5\n"),
    (&[(14, 0x81)], b"CERTIFICATE C7\n"),
    (&[(15, 0x11)], b"CERTIFICATE C5\n"),
    (&[(16, 0x09)], b"CERTIFICATE C4\n"),
    (&[(17, 0x01)], b"CERTIFICATE C5\n"),
    // A node's procedure, and an address below that of the node before.
    (&[(112, 0x01)], b"CERTIFICATE C5\n"),
    (&[(113, 0x00)], b"CERTIFICATE C6\n"),
    // IME, the transfer bound, the test's value, the gate, and A's bounds.
    (&[(117, 0x00)], b"CERTIFICATE C5\n"),
    (&[(117, 0x08)], b"CERTIFICATE C5\n"),
    (&[(118, 0xA2)], b"CERTIFICATE C5\n"),
    (&[(121, 0x01)], b"CERTIFICATE C5\n"),
    (&[(128, 0x00)], b"CERTIFICATE C5\n"),
    (&[(136, 0x02)], b"CERTIFICATE C5\n"),
    // 33 cells; a stack and 17 items.
    (&[(158, 0x21)], b"CERTIFICATE C4\n"),
    (&[(119, 0x01), (157, 0x11)], b"CERTIFICATE C4\n"),
    // An item without a stack; a cell that is cut short.
    (&[(157, 0x01)], b"CERTIFICATE C5\n"),
    (&[(158, 0x01)], b"CERTIFICATE C1\n"),
    // The lowest offset counts.
    (&[(0, 0x67), (4, 0x02)], b"CERTIFICATE C2\n"),
    (&[(9, 0x00), (113, 0x00)], b"CERTIFICATE C5\n"),
];

#[test]
fn lines_of_unreadable_certificates(rt: HostRuntime) {
    play(&rt, rt.alloc(), UNREADABLE);
}

/// Certificates that can be read, and the verdict.
const READABLE: &[Replaced] = &[
    (&[], ACCEPTED),
    // Main's need 128; node 2's A up to 02, its controller not kept, its gate either; its IME off or on.
    (&[(14, 0x80)], ACCEPTED),
    (&[(137, 0x02)], ACCEPTED),
    (&[(130, 0x00)], ACCEPTED),
    (&[(128, 0x03)], ACCEPTED),
    (&[(117, 0x05)], ACCEPTED),
    // And its IE up to 01; IME off or pending; pending alone.
    (&[(117, 0x05), (134, 0x01)], b"REFUSED node 2 reason 17\n"),
    (&[(117, 0x03)], b"REFUSED node 2 reason 14\n"),
    (&[(117, 0x02)], b"REFUSED node 1 reason 14\n"),
    // Node 2's bound; its stack set; its test.
    (&[(118, 0x01)], b"REFUSED node 2 reason 12\n"),
    (&[(119, 0x01)], b"REFUSED node 1 reason 14\n"),
    (&[(120, 0x01)], b"REFUSED node 1 reason 14\n"),
    // The origin of node 1's A: B, and none; node 1's bank.
    (&[(91, 0x03)], b"REFUSED node 0 reason 14\n"),
    (&[(91, 0x00)], b"REFUSED node 1 reason 14\n"),
    (&[(68, 0x01)], b"REFUSED node 1 reason 3\n"),
    // Node 0's A up to 02; its controller not kept; its A 02 alone; main's entry.
    (&[(43, 0x02)], b"REFUSED node 0 reason 14\n"),
    (&[(36, 0x00)], b"REFUSED node 0 reason 14\n"),
    (&[(42, 0x02), (43, 0x02)], b"REFUSED node 0 reason 1\n"),
    (&[(12, 0x02)], b"REFUSED node 2 reason 1\n"),
];

#[test]
fn lines_of_readable_certificates(rt: HostRuntime) {
    play(&rt, rt.alloc(), READABLE);
}

/// Replaced bytes of the certificate of a load, and whether it is accepted; else node 2 isn't covered.
const LOADS: [(Changes<'static>, bool); 4] = [
    (&[], true),
    // A from 00 to 05; A from 05 to 06 as a copy; A 04 alone.
    (&[(183, 0x00)], true),
    (&[(184, 0x06), (185, 0x01)], false),
    (&[(183, 0x04), (184, 0x04)], false),
];

const LOADED: Verdict = Verdict::Accepted {
    nodes: 4,
    procedures: 1,
};

const UNCOVERED: Verdict = Verdict::Refused {
    node: 2,
    reason: Reason::Uncovered,
};

/// Whether a certificate of four nodes is accepted, or its node 2 isn't covered.
fn judges(rom: &Rom<'_>, cert: &Cert<'_>, is_accepted: bool) -> bool {
    let verdict = if is_accepted { LOADED } else { UNCOVERED };
    check(rom, cert) == verdict
        && cert.nodes() == 4
        && check_node(rom, cert, 2).is_ok() == is_accepted
}

/// LD A,05 at 0150, and a fourth node behind it at 0152: a loaded number is known, and no copy of another value.
#[test]
fn verdicts_of_a_load(rt: HostRuntime) -> Result<(), Fail> {
    let file = small(PLAIN, &[0x3E, 0x05, 0x18, 0xFE]);
    let rom = Rom::parse(&file)?;
    for (i, (changes, is_accepted)) in LOADS.iter().enumerate() {
        let mut bytes = [0; 206];
        write_nodes(&mut bytes, &[0x0100, 0x0101, 0x0150, 0x0152]);
        replace(&mut bytes, &[(183, 0x05), (184, 0x05), (185, 0x00)]);
        replace(&mut bytes, changes);
        let cert = Cert::parse(rt.alloc(), &bytes)?;
        assert!(rt; judges(&rom, &cert, *is_accepted), "certificate {i}");
    }
    Ok(())
}

/// Whether a sink that fails behind so many bytes has the line's beginning.
fn writes_beginning(alloc: Global, rom: &[u8], most: usize) -> bool {
    let mut out = KeptBytes::new(96, most);
    let result = verify_bytes(alloc, rom, &least(), &mut out);
    result == Err(OutFault) && Some(out.kept()) == ACCEPTED.get(..most) && out.failed()
}

/// Whether a sink that takes so many bytes at a time gets the whole line.
fn writes_whole(alloc: Global, rom: &[u8], at_once: usize) -> bool {
    let mut out = KeptBytes::new(at_once, 30);
    let result = verify_bytes(alloc, rom, &least(), &mut out);
    result == Ok(Outcome::Accepted) && out.kept() == ACCEPTED && !out.failed()
}

#[test]
fn writes_beginnings(rt: HostRuntime) {
    let rom = cartridge(&[]);
    for most in 0..30 {
        assert!(rt; writes_beginning(rt.alloc(), &rom, most), "{most} bytes");
    }
    assert!(rt; writes_whole(rt.alloc(), &rom, 1));
    assert!(rt; writes_whole(rt.alloc(), &rom, 30));
}

#[test]
fn a_writer_that_fails_is_a_sink_that_fails(rt: HostRuntime) {
    let rom = cartridge(&[]);
    let mut out = Plain::new(FailingWriter::new(5));
    assert!(rt; verify_bytes(rt.alloc(), &rom, &least(), &mut out) == Err(OutFault));
    let mut out = Plain::new(FailingWriter::new(30));
    assert!(rt; verify_bytes(rt.alloc(), &rom, &least(), &mut out) == Ok(Outcome::Accepted));
}

/// Where an allocation is refused, the line says so and the outcome too, and no other.
#[test]
fn accepts_or_wants_memory(rt: HostRuntime) {
    let rom = cartridge(&[]);
    let mut out = KeptBytes::new(96, 96);
    match verify_bytes(rt.alloc(), &rom, &least(), &mut out) {
        Ok(Outcome::NoMemory) => assert!(rt; out.kept() == b"CERTIFICATE C9\n".as_slice()),
        result => assert!(rt; result == Ok(Outcome::Accepted) && out.kept() == ACCEPTED),
    }
}
