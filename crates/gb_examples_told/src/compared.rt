//! What a new certificate changed since an older one, by hand.

use crate::pages::{BARE, IE_IS_1, NODES, OWN_OFF, OWN_ON, PROCEDURES, SILENT, game};
use crate::spelled::{EMPTY, SpelledNode, SpelledProcedure, certificate};
use gb_page::{Cert, Changes, Older, Rom, Symbols, changes_json};
use gb_samples::cartridges::{PLAIN, small};
use std::alloc::Global;
use std::test::Fail;

/// LDH (FF),A at 0150, CALL 0160 at 0152, JR 0152 at 0155, and NOP and RET at 0160: interrupts stay off.
const PROGRAM: &[u8] = &[
    0xE0, 0xFF, 0xCD, 0x60, 0x01, 0x18, 0xFB, 0x00, 0x00, 0x00, 0x00, 0x00, 0x00, 0x00, 0x00, 0x00,
    0x00, 0xC9,
];

/// More stack is allowed than is used, and what is called may write C000 to C00F.
const NEW_PROCEDURES: &[SpelledProcedure] = &[
    SpelledProcedure {
        entry: 0,
        need: 3,
        exit: None,
        ..SILENT
    },
    SpelledProcedure {
        entry: 5,
        need: 2,
        ranges: &[1, 0x00, 0xC0, 0x0F, 0xC0],
        exit: Some(OWN_OFF),
    },
];

const NEW_NODES: &[SpelledNode] = &[
    SpelledNode {
        address: 0x0100,
        ..BARE
    },
    SpelledNode {
        address: 0x0101,
        ..BARE
    },
    SpelledNode {
        address: 0x0150,
        ..BARE
    },
    SpelledNode {
        address: 0x0152,
        changes: IE_IS_1,
        ..BARE
    },
    SpelledNode {
        address: 0x0155,
        changes: IE_IS_1,
        ..BARE
    },
    SpelledNode {
        procedure: 1,
        address: 0x0160,
        changes: OWN_OFF,
        ..BARE
    },
    SpelledNode {
        procedure: 1,
        address: 0x0161,
        changes: OWN_OFF,
        ..BARE
    },
];

/// What is otherwise where both builds have their symbols. Before, main was allowed two words, and what is called one; with the
/// return address that makes 4 bytes, and now 6.
const BY_SYMBOLS: &str = "\
deepest call chain: main -> draw (was main -> draw -> VBlank handler)\n\
stack: 6 bytes in all (was 4)\n\
main: VBlank no longer interrupts it\n\
draw: 6 bytes of stack (was 4)\n\
draw: can now write $C000-$C00F\n\
draw: VBlank no longer interrupts it\n\
VBlank handler: gone, 2 bytes of stack\n";

/// What is printed if the older build has no symbols.
const BY_ADDRESSES: &str = "\
deepest call chain: main -> draw (was main -> 00:0158 -> VBlank handler)\n\
stack: 6 bytes in all (was 4)\n\
main: VBlank no longer interrupts it\n\
draw: new, 6 bytes of stack\n\
00:0158: gone, 4 bytes of stack\n\
VBlank handler: gone, 2 bytes of stack\n";

/// What is printed if it has no cartridge either.
const BY_CERTIFICATE: &str = "\
deepest call chain: main -> draw\n\
stack: 6 bytes in all (was 4)\n\
main: VBlank no longer interrupts it\n\
draw: new, 6 bytes of stack\n\
00:0158: gone, 4 bytes of stack\n\
VBlank handler: gone, 2 bytes of stack\n";

/// What is otherwise, for programs.
const JSON: &str =
    "{\"before\":{\"stack\":4,\"way\":[\"main\",\"draw\",\"VBlank handler\"]},\"differences\":[{\"before\":4,\"now\":6,\"of\":\"need\",\"procedure\":\"main\"},{\"interrupt\":\"VBlank\",\"of\":\"interrupt\",\"procedure\":\"main\",\"side\":\"gone\"},{\"before\":4,\"now\":6,\"of\":\"need\",\"procedure\":\"draw\"},{\"first\":49152,\"last\":49167,\"of\":\"writes\",\"procedure\":\"draw\",\"side\":\"new\"},{\"interrupt\":\"VBlank\",\"of\":\"interrupt\",\"procedure\":\"draw\",\"side\":\"gone\"},{\"need\":2,\"of\":\"procedure\",\"procedure\":\"VBlank handler\",\"side\":\"gone\"}],\"is_changed\":true,\"now\":{\"stack\":6,\"way\":[\"main\",\"draw\"]}}";

/// Which of the older build's files there are.
#[derive(Clone, Copy, PartialEq, Eq)]
enum KeptCertificate {
    All,
    NoSymbols,
    CertificateAlone,
}

/// What the new build changed.
fn changes(alloc: Global, kept: KeptCertificate) -> Option<Changes> {
    let (old_rom, new_rom) = (game(), small(PLAIN, PROGRAM));
    let (old_rom, new_rom) = (Rom::parse(&old_rom).ok()?, Rom::parse(&new_rom).ok()?);
    let (old, new) = (
        certificate(PROCEDURES, NODES),
        certificate(NEW_PROCEDURES, NEW_NODES),
    );
    let old = Cert::parse(alloc, old.as_slice()).ok()?;
    let new = Cert::parse(alloc, new.as_slice()).ok()?;
    let old_symbols = Symbols::parse(alloc, b"00:0158 draw\n").ok()?;
    let new_symbols = Symbols::parse(alloc, b"00:0160 draw\n").ok()?;
    let older = Older {
        cert: &old,
        rom: if kept == KeptCertificate::CertificateAlone {
            None
        } else {
            Some(&old_rom)
        },
        symbols: if kept == KeptCertificate::All {
            Some(&old_symbols)
        } else {
            None
        },
    };
    Changes::of(alloc, &new_rom, &new, &new_symbols, &older).ok()
}

/// Whether the changes are printed so.
fn is_told(alloc: Global, kept: KeptCertificate, wanted: &str) -> Option<bool> {
    let changes = changes(alloc, kept)?;
    let text = format!(in alloc; "{changes}").ok()?;
    Some(!changes.is_none() && text.as_str() == wanted)
}

#[test]
fn a_new_build_is_compared(rt: HostRuntime) {
    assert!(rt; is_told(rt.alloc(), KeptCertificate::All, BY_SYMBOLS) == Some(true));
    assert!(rt; is_told(rt.alloc(), KeptCertificate::NoSymbols, BY_ADDRESSES) == Some(true));
    assert!(rt;
        is_told(
            rt.alloc(),
            KeptCertificate::CertificateAlone,
            BY_CERTIFICATE
        ) == Some(true)
    );
}

#[test]
fn a_new_build_is_compared_for_programs(rt: HostRuntime) -> Result<(), Fail> {
    let changes = changes(rt.alloc(), KeptCertificate::All).ok_or("changes")?;
    let json = changes_json(rt.alloc(), &changes)?;
    assert!(rt; json.as_str() == JSON);
    Ok(())
}

/// Whether a certificate has changed nothing since itself.
fn is_none(alloc: Global, rom: &Rom<'_>, cert: &Cert<'_>, symbols: &Symbols<'_>) -> Option<bool> {
    let older = Older {
        cert,
        rom: Some(rom),
        symbols: Some(symbols),
    };
    let changes = Changes::of(alloc, rom, cert, symbols, &older).ok()?;
    let text = format!(in alloc; "{changes}").ok()?;
    Some(
        changes.is_none()
            && text.as_str() == "no changes in stack, routines, RAM writes, interrupts or banks\n",
    )
}

/// Whether the game's certificate has changed nothing since itself.
fn is_same(alloc: Global) -> Option<bool> {
    let rom = game();
    let rom = Rom::parse(&rom).ok()?;
    let cert = certificate(PROCEDURES, NODES);
    let cert = Cert::parse(alloc, cert.as_slice()).ok()?;
    let symbols = Symbols::none(alloc);
    is_none(alloc, &rom, &cert, &symbols)
}

#[test]
fn the_same_build_is_compared(rt: HostRuntime) {
    assert!(rt; is_same(rt.alloc()) == Some(true));
}

/// Main is allowed a word more than before.
const MORE_NEED: &[SpelledProcedure] = &[
    SpelledProcedure {
        entry: 0,
        need: 3,
        exit: None,
        ..SILENT
    },
    SpelledProcedure {
        entry: 6,
        need: 1,
        exit: Some(OWN_ON),
        ..SILENT
    },
    SpelledProcedure {
        entry: 8,
        need: 0,
        exit: Some(OWN_ON),
        ..SILENT
    },
];

/// A word that isn't known, as two bytes of unknown values, and no cells.
const WORD: &[u8] = &[1, 0, 255, 0, 0, 255, 0, 0];

/// The game's nodes, where main holds these words at its call.
fn nodes_holding(held: &'static [u8]) -> [SpelledNode; 9] {
    let mut nodes = [BARE; 9];
    for (to, node) in nodes.iter_mut().zip(NODES) {
        *to = *node;
    }
    nodes[4].held = held;
    nodes
}

/// What is printed of a cartridge with another certificate.
fn told_between(
    alloc: Global,
    rom: &Rom<'_>,
    old: &Cert<'_>,
    new: &Cert<'_>,
    symbols: &Symbols<'_>,
) -> Option<String> {
    let older = Older {
        cert: old,
        rom: Some(rom),
        symbols: Some(symbols),
    };
    let changes = Changes::of(alloc, rom, new, symbols, &older).ok()?;
    format!(in alloc; "{changes}").ok()
}

/// What is printed of the game with another certificate.
fn told_of(alloc: Global, held: &'static [u8]) -> Option<String> {
    let rom = game();
    let rom = Rom::parse(&rom).ok()?;
    let (old, new) = (
        certificate(PROCEDURES, NODES),
        certificate(MORE_NEED, &nodes_holding(held)),
    );
    let old = Cert::parse(alloc, old.as_slice()).ok()?;
    let new = Cert::parse(alloc, new.as_slice()).ok()?;
    let symbols = Symbols::parse(alloc, b"00:0158 draw\n").ok()?;
    told_between(alloc, &rom, &old, &new, &symbols)
}

/// The deepest chain has the same names: they are printed once, with the bytes of what holds more.
#[test]
fn a_chain_of_the_same_names(rt: HostRuntime) -> Result<(), Fail> {
    let text = told_of(rt.alloc(), EMPTY).ok_or("changes")?;
    assert_eq!(rt;
        text.as_str(),
        "deepest call chain: main -> draw -> VBlank handler\nstack: 6 bytes in all (was 4)\n"
    );
    let text = told_of(rt.alloc(), WORD).ok_or("changes")?;
    assert_eq!(rt;
        text.as_str(),
        "deepest call chain: main (4 bytes, was 2) -> draw -> VBlank handler\nstack: 6 bytes in all (was 4)\n"
    );
    Ok(())
}
