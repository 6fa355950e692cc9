//! The lines of programs that start a copy to OAM.

use gb_samples::cartridges::{PLAIN, put, small};
use gb_samples::certificates::write_nodes;
use gb_text::kept_bytes::KeptBytes;
use gb_text::line::Line;
use gb_text::sink::Sink;
use gb_verify::verify::verify_bytes;
use std::alloc::Global;

/// The line of two files.
fn line_of(alloc: Global, rom: &[u8], cert: &[u8]) -> Line {
    let mut out = KeptBytes::new(96, 96);
    let _ = verify_bytes(alloc, rom, cert, &mut out);
    out.into_line()
}

/// The certificate of a copy from a page to OAM at 0152: from node 4 on the JR behind it, for each count that is left.
fn copy_from(page: u8) -> [u8; 2791] {
    let mut addresses = [0x0154; 59];
    for (to, address) in addresses.iter_mut().zip([0x0100, 0x0101, 0x0150, 0x0152]) {
        *to = address;
    }
    let mut bytes = [0; 2791];
    write_nodes(&mut bytes, &addresses);
    let mut left = 161u8;
    for node in 3..59usize {
        put(&mut bytes, node * 47 + 42, &[page, page, 0x00]);
        if node > 3 {
            put(&mut bytes, node * 47 + 24, &[left]);
            left = left.saturating_sub(3);
        }
    }
    bytes
}

/// Pages, and the line of a copy from each.
const COPIES: [(u8, &[u8]); 2] = [
    (0xC1, b"REFUSED node 4 reason 12\n"),
    (0xA1, b"REFUSED node 3 reason 11\n"),
];

/// LD A, LDH (46),A and JR to itself: the JR runs while the copy does, and cartridge RAM that isn't there is no source.
#[test]
fn lines_of_copies(rt: HostRuntime) {
    for (page, line) in COPIES {
        let rom = small(PLAIN, &[0x3E, page, 0xE0, 0x46, 0x18, 0xFE]);
        let out = line_of(rt.alloc(), &rom, &copy_from(page));
        assert!(rt; out.as_slice() == line, "page {page:x}");
    }
}
