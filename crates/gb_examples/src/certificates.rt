//! What is written of certificates: their lines, and their bytes in version 2.

use gb_cert::{Cert, CertFault};
use gb_samples::cartridges::{PLAIN, put, small};
use gb_samples::certificates::{
    least, least_in_version_2, least_in_version_3, small_in_version_4, two_procedures,
};
use gb_samples::programs::LOOP;
use gb_text::kept_bytes::KeptBytes;
use gb_text::sink::{OutFault, Sink};
use gb_witness::{
    Outcome, UpgradeTo, Upgraded, show_bytes, show_cert, upgrade_bytes, verify_bytes,
};
use std::alloc::Global;
use std::test::Fail;

/// The lines of the least certificate.
const LEAST: &[u8] = b"\
stack DF00..DFFF procedures 1 nodes 3\n\
procedure 0 entry 0 need 0 ranges 0 returns no\n\
node 0 procedure 0 address 0100 bank 000\n\
node 1 procedure 0 address 0101 bank 000\n\
node 2 procedure 0 address 0150 bank 000\n";

/// The lines of a certificate whose second procedure declares ranges and returns.
const TWO: &[u8] = b"\
stack DF00..DFFF procedures 2 nodes 2\n\
procedure 0 entry 0 need 128 ranges 0 returns no\n\
procedure 1 entry 1 need 4096 ranges 2 returns yes\n\
node 0 procedure 0 address 0100 bank 000\n\
node 1 procedure 1 address 4000 bank 1FF\n";

/// The lines of the least certificate of version 3, with a need of three bytes.
const THIRD: &[u8] = b"\
stack DF00..DFFF procedures 1 nodes 3\n\
procedure 0 entry 0 base E000 need 3 ranges 0 returns no\n\
node 0 procedure 0 address 0100 bank 000\n\
node 1 procedure 0 address 0101 bank 000\n\
node 2 procedure 0 address 0150 bank 000\n";

/// The lines of a certificate of version 4, with a fact and a kept byte.
const FOURTH: &[u8] = b"\
stack DF00..DFFF procedures 2 nodes 2\n\
fact C000..C0F0 step 16 values 00..03 low bits 0\n\
procedure 0 entry 0 base E000 need 3 ranges 0 returns no\n\
procedure 1 entry 1 base 0000 need 4 ranges 1 returns no\n\
procedure 1 keeps 1 mark 2\n\
node 0 procedure 0 address 0100 bank 000\n\
node 1 procedure 1 address 0150 bank 000\n";

/// Shows a certificate, by its bytes and as it is read from them.
fn shows(alloc: Global, bytes: &[u8], lines: &[u8]) -> Result<bool, Fail> {
    let mut out = KeptBytes::new(7, 1_000);
    let fault = show_bytes(alloc, bytes, &mut out);
    let cert = Cert::parse(alloc, bytes)?;
    let mut again = KeptBytes::new(1_000, 1_000);
    let shown = show_cert(&cert, &mut again);
    Ok(fault == Ok(None) && shown == Ok(()) && out.kept() == lines && again.kept() == lines)
}

#[test]
fn lines_of_each_version(rt: HostRuntime) -> Result<(), Fail> {
    assert!(rt; shows(rt.alloc(), &least(), LEAST)?);
    assert!(rt; shows(rt.alloc(), &least_in_version_2(), LEAST)?);
    assert!(rt; shows(rt.alloc(), &two_procedures(), TWO)?);
    let mut third = least_in_version_3();
    put(&mut third, 20, &[0x03]);
    assert!(rt; shows(rt.alloc(), &third, THIRD)?);
    assert!(rt; shows(rt.alloc(), &small_in_version_4(), FOURTH)?);
    Ok(())
}

/// Whether these bytes come out as those, so many with each put.
fn upgrades(alloc: Global, bytes: &[u8], to: UpgradeTo, whole: &[u8], at_once: usize) -> bool {
    let mut out = KeptBytes::new(at_once, 1_000);
    upgrade_bytes(alloc, bytes, to, &mut out) == Ok(Upgraded::Written) && out.kept() == whole
}

/// Numbers of nodes take four bytes, and all else stays; a certificate of version 2 or 3 comes out as it is.
#[test]
fn is_written_in_version_2(rt: HostRuntime) {
    let second = least_in_version_2();
    let third = least_in_version_3();
    let to = UpgradeTo::Two;
    assert!(rt; upgrades(rt.alloc(), &least(), to, &second, 7));
    assert!(rt; upgrades(rt.alloc(), &second, to, &second, 1_000));
    assert!(rt; upgrades(rt.alloc(), &third, to, &third, 1_000));
}

/// Main's base and what is known together are said too; main has no return word.
#[test]
fn is_written_in_version_3(rt: HostRuntime) {
    let third = least_in_version_3();
    let to = UpgradeTo::Three;
    assert!(rt; upgrades(rt.alloc(), &least(), to, &third, 7));
    assert!(rt; upgrades(rt.alloc(), &least_in_version_2(), to, &third, 1_000));
    assert!(rt; upgrades(rt.alloc(), &third, to, &third, 1_000));
}

/// A certificate of two procedures: its front in version 2.
const FRONT: &[u8] = &[
    0x47, 0x42, 0x42, 0x43, 0x02, 0x00, 0xDF, 0xFF, 0xDF, 0x02, 0x02, 0x00, 0x00, 0x00, 0x00, 0x00,
    0x00, 0x00, 0x80, 0x00, 0x00, 0x00, 0x01, 0x00, 0x00, 0x00,
];

#[test]
fn each_procedure_has_longer_numbers(rt: HostRuntime) {
    let two = two_procedures();
    let mut out = KeptBytes::new(1_000, 1_000);
    assert!(rt; upgrade_bytes(rt.alloc(), &two, UpgradeTo::Two, &mut out) == Ok(Upgraded::Written));
    assert!(rt; out.kept().get(..26) == Some(FRONT));
    assert!(rt; out.kept().get(26..) == Some(&two[20..]));
}

/// The head and procedures in version 3: main needs 256 bytes, and the other procedure no more than the 8,192 that it needed before.
const FRONT_IN_VERSION_3: &[u8] = &[
    0x47, 0x42, 0x42, 0x58, 0x03, 0x00, 0xDF, 0xFF, 0xDF, 0x02, 0x02, 0x00, 0x00, 0x00, 0x00, 0x00,
    0x00, 0x00, 0x00, 0xE0, 0x00, 0x01, 0x00, 0x00, 0x01, 0x00, 0x00, 0x00, 0x00, 0x00, 0x00, 0x20,
    0x02, 0x00, 0xC0, 0xFF, 0xC0, 0x80, 0xFF, 0x80, 0xFF, 0x01,
];

/// Two items, any byte that is the return word's high byte and any that is its low byte; nothing known together, no cell.
const RETURN_WORD: &[u8] = &[0x02, 0x00, 0xFF, 0x0A, 0x00, 0xFF, 0x0B, 0x00, 0x00];

#[test]
fn each_procedure_but_main_has_its_return_word(rt: HostRuntime) {
    let two = two_procedures();
    let mut out = KeptBytes::new(1_000, 1_000);
    assert!(rt;
        upgrade_bytes(rt.alloc(), &two, UpgradeTo::Three, &mut out) == Ok(Upgraded::Written)
    );
    let kept = out.kept();
    assert!(rt; kept.get(..42) == Some(FRONT_IN_VERSION_3));
    assert!(rt; kept.get(42..82) == Some(&two[32..72]));
    assert!(rt; kept.get(82..85) == Some(&[0x00, 0x00, 0x00]));
    assert!(rt; kept.get(85..130) == Some(&two[74..119]));
    assert!(rt; kept.get(130..133) == Some(&[0x00, 0x00, 0x00]));
    assert!(rt; kept.get(133..178) == Some(&two[121..166]));
    assert!(rt; kept.get(178..) == Some(RETURN_WORD));
}

/// Whether the fault of these bytes is what `verify`, `show` and `upgrade` write, and what they answer.
fn has_fault(alloc: Global, bytes: &[u8], fault: CertFault, line: &[u8]) -> bool {
    let rom = small(PLAIN, LOOP);
    let mut checked = KeptBytes::new(96, 96);
    let mut shown = KeptBytes::new(96, 96);
    let mut upgraded = KeptBytes::new(96, 96);
    verify_bytes(alloc, &rom, bytes, &mut checked) == Ok(Outcome::Unreadable)
        && show_bytes(alloc, bytes, &mut shown) == Ok(Some(fault))
        && upgrade_bytes(alloc, bytes, UpgradeTo::Three, &mut upgraded) == Ok(Upgraded::Unreadable)
        && checked.kept() == line
        && shown.kept() == line
        && upgraded.kept() == line
}

#[test]
fn version_2_is_accepted(rt: HostRuntime) {
    let mut out = KeptBytes::new(96, 96);
    let rom = small(PLAIN, LOOP);
    let outcome = verify_bytes(rt.alloc(), &rom, &least_in_version_2(), &mut out);
    assert!(rt; outcome == Ok(Outcome::Accepted));
    assert!(rt; out.kept() == b"ACCEPTED nodes 3 procedures 1\n".as_slice());
}

#[test]
fn faults_of_version_2(rt: HostRuntime) {
    let second = least_in_version_2();
    for length in 0..163 {
        let cut = second.get(..length).unwrap_or(&[]);
        let is_cut = has_fault(rt.alloc(), cut, CertFault::CutShort, b"CERTIFICATE C1\n");
        assert!(rt; is_cut, "at {length} bytes");
    }
    let mut longer = [0; 164];
    put(&mut longer, 0, &second);
    assert!(rt;
        has_fault(
            rt.alloc(),
            &longer,
            CertFault::LeftOver,
            b"CERTIFICATE C8\n"
        )
    );
    // The bytes of version 1 with another version before them.
    let mut other = least();
    put(&mut other, 4, &[0x02]);
    assert!(rt; has_fault(rt.alloc(), &other, CertFault::Field, b"CERTIFICATE C5\n"));
    put(&mut other, 4, &[0x03]);
    assert!(rt; has_fault(rt.alloc(), &other, CertFault::Version, b"CERTIFICATE C3\n"));
    // 1,048,577 nodes, and 1,048,576 of which none is there.
    let mut head = [
        0x47, 0x42, 0x42, 0x43, 0x02, 0x00, 0xDF, 0xFF, 0xDF, 0x01, 0x01, 0x00, 0x10, 0x00,
    ];
    assert!(rt; has_fault(rt.alloc(), &head, CertFault::Count, b"CERTIFICATE C4\n"));
    put(&mut head, 10, &[0x00]);
    assert!(rt; has_fault(rt.alloc(), &head, CertFault::CutShort, b"CERTIFICATE C1\n"));
}

/// Whether a sink that takes so many bytes has the beginning of what `show` writes, and both know of its fault.
fn shows_beginning(alloc: Global, bytes: &[u8], whole: &[u8], most: usize) -> bool {
    let mut out = KeptBytes::new(7, most);
    let shown = show_bytes(alloc, bytes, &mut out);
    shown == Err(OutFault) && Some(out.kept()) == whole.get(..most) && out.failed()
}

/// Whether a failing sink gets a beginning of what `upgrade` writes.
fn upgrades_beginning(
    alloc: Global,
    bytes: &[u8],
    to: UpgradeTo,
    whole: &[u8],
    most: usize,
) -> bool {
    let mut out = KeptBytes::new(7, most);
    let upgraded = upgrade_bytes(alloc, bytes, to, &mut out);
    upgraded == Err(OutFault) && Some(out.kept()) == whole.get(..most) && out.failed()
}

#[test]
fn a_sink_that_fails_has_a_beginning(rt: HostRuntime) {
    let first = least();
    let second = least_in_version_2();
    for most in 0..LEAST.len() {
        assert!(rt;
            shows_beginning(rt.alloc(), &first, LEAST, most),
            "at {most}"
        );
    }
    for most in 0..163 {
        assert!(rt;
            upgrades_beginning(rt.alloc(), &first, UpgradeTo::Two, &second, most),
            "at {most}"
        );
    }
    let third = least_in_version_3();
    for most in 0..168 {
        assert!(rt;
            upgrades_beginning(rt.alloc(), &first, UpgradeTo::Three, &third, most),
            "at {most}"
        );
    }
}

/// The line of no certificate.
const CUT_SHORT: &[u8] = b"CERTIFICATE C1\n";

#[test]
fn a_sink_that_fails_has_a_faults_beginning(rt: HostRuntime) {
    for most in 0..15 {
        assert!(rt;
            shows_beginning(rt.alloc(), &[], CUT_SHORT, most),
            "at {most}"
        );
        assert!(rt;
            upgrades_beginning(rt.alloc(), &[], UpgradeTo::Three, CUT_SHORT, most),
            "at {most}"
        );
    }
}

/// Whether a call wrote all, or wanted memory and said so.
fn is_whole_or_refused(is_whole: bool, is_refused: bool, kept: &[u8], whole: &[u8]) -> bool {
    is_whole && kept == whole || is_refused && kept == b"CERTIFICATE C9\n".as_slice()
}

/// Whether an upgrade of the least certificate is written whole, or memory was refused.
fn is_upgraded_or_refused(alloc: Global, to: UpgradeTo, whole: &[u8]) -> bool {
    let mut out = KeptBytes::new(1_000, 1_000);
    let upgraded = upgrade_bytes(alloc, &least(), to, &mut out);
    let is_whole = upgraded == Ok(Upgraded::Written);
    let is_refused = upgraded == Ok(Upgraded::NoMemory);
    is_whole_or_refused(is_whole, is_refused, out.kept(), whole)
}

/// Where an allocation is refused, the line says so and the answer too, and no other.
#[test]
fn is_written_or_wants_memory(rt: HostRuntime) {
    let mut out = KeptBytes::new(1_000, 1_000);
    let shown = show_bytes(rt.alloc(), &least(), &mut out);
    let is_refused = shown == Ok(Some(CertFault::Memory));
    assert!(rt; is_whole_or_refused(shown == Ok(None), is_refused, out.kept(), LEAST));
    assert!(rt; is_upgraded_or_refused(rt.alloc(), UpgradeTo::Two, &least_in_version_2()));
    assert!(rt; is_upgraded_or_refused(rt.alloc(), UpgradeTo::Three, &least_in_version_3()));
}
