//! Certificates, read and written again.

use gb_cert::{Cert, CertFault, Found, encode, one_spelling};
use gb_ops::machine::Region;
use gb_ops::op::Register;
use gb_samples::cartridges::{PLAIN, put, small};
use gb_samples::certificates::{least, least_in_version_2, write_nodes};
use gb_samples::programs::LOOP;
use gb_samples::states::{ANY, copy_of};
use gb_verify::check::{check, verdict_ignores_version};
use gb_verify::verdict::Verdict;
use gb_verify::{Cell, Rom};
use std::alloc::{AllocError, Global};
use std::test::Fail;

const REGION: Region = Region {
    first: 0xDF00,
    last: 0xDFFF,
};

/// Whether a certificate has three nodes, the last at 0150 in the state of power-up.
fn has_three_nodes(cert: &Cert<'_>) -> bool {
    if cert.nodes() != 3 {
        return false;
    }
    let node = cert.node(2);
    let state = node.state();
    let registers = state.core().registers;
    node.procedure() == 0
        && node.address() == 0x0150
        && node.bank() == 0
        && node.lent().items().is_empty()
        && node.lent().cells().is_empty()
        && state.items().is_empty()
        && state.cells().is_empty()
        && registers.a.lo == 0x01
        && registers.c.lo == 0x13
        && registers.e.hi == 0xD8
}

/// Whether a certificate has one procedure, which begins at node 0, needs no stack, may write nothing and doesn't return.
fn has_main_alone(cert: &Cert<'_>) -> bool {
    if cert.procedures() != 1 {
        return false;
    }
    let main = cert.procedure(0);
    main.entry() == 0
        && main.need() == 0
        && main.ranges().as_slice().is_empty()
        && main.exit().is_none()
}

/// Three nodes of main; what is written of it is what was read.
#[test]
fn reads_and_writes_again(rt: HostRuntime) -> Result<(), Fail> {
    one_spelling();
    let bytes = least();
    let cert = Cert::parse(rt.alloc(), &bytes)?;
    assert!(rt; cert.region() == REGION);
    assert!(rt; has_three_nodes(&cert));
    assert!(rt; has_main_alone(&cert));
    assert!(rt; encode(rt.alloc(), &cert)?.as_slice() == bytes.as_slice());
    Ok(())
}

/// Nodes with one address and one state are in order.
#[test]
fn equal_keys_are_in_order(rt: HostRuntime) {
    let mut bytes = [0; 159];
    write_nodes(&mut bytes, &[0x0100, 0x0101, 0x0101]);
    assert!(rt; Cert::parse(rt.alloc(), &bytes).is_ok());
}

/// A procedure, an address, and the numbers of its first node there and behind its last.
const FOUND: [(u16, u16, u32, u32); 6] = [
    (0, 0x0100, 0, 1),
    (0, 0x0101, 1, 3),
    (0, 0x0102, 3, 3),
    (0, 0x0150, 3, 4),
    (0, 0x00FF, 0, 0),
    (1, 0x0101, 4, 4),
];

/// The nodes of main at 0101 are numbers 1 and 2; where there is none, both are the number of nodes before.
#[test]
fn nodes_are_found(rt: HostRuntime) -> Result<(), Fail> {
    let mut bytes = [0; 206];
    write_nodes(&mut bytes, &[0x0100, 0x0101, 0x0101, 0x0150]);
    let cert = Cert::parse(rt.alloc(), &bytes)?;
    for (procedure, address, first, after) in FOUND {
        let found = cert.find(procedure, address).found;
        assert!(rt;
            found == Found { first, after },
            "{procedure} at {address:x}"
        );
    }
    Ok(())
}

/// A word on the stack: B from 01 to 02, and any byte.
const ITEM: [u8; 6] = [0x01, 0x02, 0x03, 0x00, 0xFF, 0x00];

/// C123 holds 05 to 06, a copy of A.
const CELL: [u8; 5] = [0x23, 0xC1, 0x05, 0x06, 0x01];

/// Whether a certificate's node 2 has the word and the cell, in its bytes and in its state.
fn has_item_and_cell(cert: &Cert<'_>) -> bool {
    if cert.nodes() != 3 {
        return false;
    }
    let node = cert.node(2);
    let state = node.state();
    let word = [copy_of(Register::B, 1, 2), ANY];
    let byte = Cell {
        address: 0xC123,
        val: copy_of(Register::A, 5, 6),
    };
    node.lent().items() == ITEM.as_slice()
        && node.lent().cells() == CELL.as_slice()
        && state.items() == word.as_slice()
        && state.cells() == [byte].as_slice()
}

/// Node 2 with a stack, one word on it and one cell.
#[test]
fn items_and_cells_are_lent(rt: HostRuntime) -> Result<(), Fail> {
    let mut bytes = [0; 170];
    put(&mut bytes, 0, &least());
    put(&mut bytes, 119, &[0x01]);
    put(&mut bytes, 157, &[0x01]);
    put(&mut bytes, 158, &ITEM);
    put(&mut bytes, 164, &[0x01]);
    put(&mut bytes, 165, &CELL);
    let cert = Cert::parse(rt.alloc(), &bytes)?;
    assert!(rt; has_item_and_cell(&cert));
    Ok(())
}

const FAULTS: [(CertFault, u8); 9] = [
    (CertFault::CutShort, 1),
    (CertFault::Magic, 2),
    (CertFault::Version, 3),
    (CertFault::Count, 4),
    (CertFault::Field, 5),
    (CertFault::Order, 6),
    (CertFault::Region, 7),
    (CertFault::LeftOver, 8),
    (CertFault::Memory, 9),
];

#[test]
fn faults_are_numbered(rt: HostRuntime) {
    for (fault, number) in FAULTS {
        assert!(rt; fault.number() == number, "fault {number}");
    }
}

/// Where an allocation is refused, the answer is that memory ran out and no other.
#[test]
fn is_read_and_written_or_wants_memory(rt: HostRuntime) {
    let bytes = least();
    match Cert::parse(rt.alloc(), &bytes) {
        Err(fault) => assert!(rt; fault == CertFault::Memory),
        Ok(cert) => {
            if let Ok(again) = encode(rt.alloc(), &cert) {
                assert!(rt; again.as_slice() == bytes.as_slice());
            }
        }
    }
}

/// Whether the first is of version 1, and the second the same in version 2, whose bytes these are.
fn are_versions(first: &Cert<'_>, second: &Cert<'_>, bytes: &[u8; 163]) -> bool {
    first.version() == 1
        && second.version() == 2
        && first.upgraded_head().as_slice() == &bytes[..14]
        && first.procedure_body(0) == &bytes[18..22]
        && first.node_bytes() == &bytes[22..]
}

/// Both versions of one certificate are read and written again, and have one verdict.
#[test]
fn reads_both_versions(rt: HostRuntime) -> Result<(), Fail> {
    verdict_ignores_version();
    let (bytes, second_bytes) = (least(), least_in_version_2());
    let first = Cert::parse(rt.alloc(), &bytes)?;
    let second = Cert::parse(rt.alloc(), &second_bytes)?;
    assert!(rt; are_versions(&first, &second, &second_bytes));
    assert!(rt; encode(rt.alloc(), &second)?.as_slice() == second_bytes.as_slice());
    let file = small(PLAIN, LOOP);
    let rom = Rom::parse(&file)?;
    let verdict = check(&rom, &second);
    assert!(rt; matches!(verdict, Verdict::Accepted { nodes: 3, .. }));
    assert!(rt; check(&rom, &first) == verdict);
    Ok(())
}

/// Adds the state of power-up with its stack set, so many words on it and so many cells from C100 on.
fn add_state(bytes: &mut Vec<u8>, items: u8, cells: u8) -> Result<(), AllocError> {
    let least = least();
    bytes.extend_from_slice(&[least[23], least[24], 0x01])?;
    bytes.extend_from_slice(&least[26..63])?;
    bytes.extend_from_slice(&[items])?;
    for i in 0..items {
        bytes.extend_from_slice(&[i, 0xFF, 0x03, 0x00, i, 0x00])?;
    }
    bytes.extend_from_slice(&[cells])?;
    for i in 0..cells {
        bytes.extend_from_slice(&[i, 0xC1, 0x05, 0x06, 0x01])?;
    }
    Ok(())
}

/// Adds 255 procedures with a node each; the last has 8 ranges, 16 items and 32 cells.
fn add_largest(bytes: &mut Vec<u8>) -> Result<(), AllocError> {
    bytes.extend_from_slice(&least()[..9])?;
    bytes.extend_from_slice(&[0xFF, 0xFF, 0x00])?;
    for i in 0..255 {
        let ranges = if i == 254 { 8 } else { 0 };
        bytes.extend_from_slice(&[i, 0x00, 0x00, 0x00, ranges])?;
        for j in 0..ranges {
            bytes.extend_from_slice(&[0x00, 0xC0 | j, 0x7F, 0xC0 | j])?;
        }
        bytes.extend_from_slice(&[0x00])?;
    }
    for i in 0..255 {
        bytes.extend_from_slice(&[i, 0x00, 0x01, 0x00, 0x00])?;
        let (items, cells) = if i == 254 { (16, 32) } else { (0, 0) };
        add_state(bytes, items, cells)?;
    }
    Ok(())
}

/// Whether a certificate has as many procedures, ranges, items and cells as there may be.
fn has_the_most(cert: &Cert<'_>) -> bool {
    if cert.procedures() != 255 || cert.nodes() != 255 {
        return false;
    }
    let state = cert.node(254).state();
    cert.procedure(254).ranges().as_slice().len() == 8
        && state.items().len() == 32
        && state.cells().len() == 32
}

/// What is written of it is what was read.
#[test]
fn reads_the_most_of_each(rt: HostRuntime) -> Result<(), Fail> {
    let mut bytes = Vec::new(rt.alloc());
    add_largest(&mut bytes)?;
    let cert = Cert::parse(rt.alloc(), &bytes)?;
    assert!(rt; has_the_most(&cert));
    assert!(rt; encode(rt.alloc(), &cert)?.as_slice() == bytes.as_slice());
    Ok(())
}

fn finds_none(cert: &Cert<'_>, procedure: u16, address: u16) -> bool {
    let found = cert.find(procedure, address).found;
    found.first == found.after
}

/// Nodes of main, four of which have one address.
const ADDRESSES: [u16; 10] = [
    0x0100, 0x0101, 0x0150, 0x0152, 0x0154, 0x0156, 0x0156, 0x0156, 0x0156, 0x0158,
];

/// Numbers 5 to 8 have one address.
#[test]
fn nodes_of_one_address(rt: HostRuntime) -> Result<(), Fail> {
    let mut bytes = [0; 488];
    write_nodes(&mut bytes, &ADDRESSES);
    let cert = Cert::parse(rt.alloc(), &bytes)?;
    assert!(rt; cert.find(0, 0x0156).found == Found { first: 5, after: 9 });
    assert!(rt; finds_none(&cert, 0, 0x0155));
    assert!(rt; finds_none(&cert, 1, 0x0156));
    Ok(())
}
