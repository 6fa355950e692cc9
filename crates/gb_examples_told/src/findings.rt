//! What is shown of findings that are at no instruction, by hand: a stack without room, limits, and fixes by the language.

use crate::pages::game;
use gb_ops::machine::Region;
use gb_ops::op::Register;
use gb_page::{
    CodePoint, Count, Crowd, Finding, FindingsExtras, Multiplied, Multiplier, ReachedLimit, Rom,
    Symbols, color_note, findings_page,
};
use gb_samples::cartridges::put;
use std::alloc::{AllocError, Global};
use std::test::Fail;

/// In assembly, as rgblink writes them.
const ASSEMBLY: &[u8] = b"00:0250 draw\n00:0300 put\n02:4100 far\n00:C000 wState\n";

/// Of a program in C, as SDCC's linker writes them.
const C: &[u8] = b"DEF _main 0x200\nDEF _draw 0x250\n";

/// Whether the page of a finding has a text.
fn says(alloc: Global, finding: Finding, symbols: &[u8], text: &str) -> Option<bool> {
    let rom = game();
    let rom = Rom::parse(&rom).ok()?;
    let symbols = Symbols::parse(alloc, symbols).ok()?;
    let page = findings_page(alloc, &rom, &[finding], &symbols, FindingsExtras::none()).ok()?;
    Some(page.as_str().contains(text))
}

/// A place in ROM.
fn point(bank: u16, address: u16) -> CodePoint {
    CodePoint {
        address,
        bank: Some(bank),
    }
}

/// A stack whose analysis got to its last two bytes.
const IN_HIGH_RAM: Region = Region {
    first: 0xFF88,
    last: 0xFF89,
};

/// A stack that `--stack` names.
const NAMED: Region = Region {
    first: 0xDFC0,
    last: 0xDFFF,
};

/// FF80 to FF89 are 10 bytes, and DFC0 to DFFF 64.
#[test]
fn a_stack_without_room(rt: HostRuntime) {
    let finding = Finding::StackTooDeep {
        bytes: 12,
        region: IN_HIGH_RAM,
    };
    let text =
        "<pre>The stack needs at least 12 bytes, and has room for 10, from $FF80 to $FF89.</pre>";
    assert!(rt; says(rt.alloc(), finding, b"", text) == Some(true));
    let finding = Finding::StackTooDeep {
        bytes: 100,
        region: NAMED,
    };
    let text =
        "<pre>The stack needs at least 100 bytes, and has room for 64, from $DFC0 to $DFFF.</pre>";
    assert!(rt; says(rt.alloc(), finding, b"", text) == Some(true));
}

/// So many at a place.
fn count(count: usize, bank: u16, address: u16) -> Count {
    Count {
        count,
        point: point(bank, address),
    }
}

/// A run with more nodes than 100, by these values, and with four copies of a routine, one for each bank.
fn crowd(alloc: Global, by: Multiplier) -> Result<Finding, AllocError> {
    let mut crowded = Vec::new(alloc);
    crowded.push(count(12, 0, 0x0250))?;
    crowded.push(count(3, 2, 0x4100))?;
    let mut entered = Vec::new(alloc);
    entered.push(count(4, 0, 0x0300))?;
    Ok(Finding::TooLarge(Crowd {
        nodes: 101,
        procedures: 7,
        limit: ReachedLimit::Nodes(100),
        crowded,
        multiplied: Some(Multiplied { by, values: 12 }),
        entered,
        parted: Some(Multiplied {
            by: Multiplier::Bank,
            values: 4,
        }),
    }))
}

#[test]
fn too_many_nodes(rt: HostRuntime) -> Result<(), Fail> {
    let finding = crowd(rt.alloc(), Multiplier::Register(Register::B))?;
    let text =
        "<pre>The analysis took more than 100 nodes, with 7 copies of routines.\n  Most nodes: 12 at draw (00:0250), 3 at far (02:4100)\n  What multiplies the first: b has 12 values there.\n  Most copies: 4 of put (00:0300)\n  What multiplies the first: the mapped bank has 4 values when it is called.</pre>";
    assert!(rt; says(rt.alloc(), finding, ASSEMBLY, text) == Some(true));
    let finding = crowd(rt.alloc(), Multiplier::Cell(0xC000))?;
    let text = "\n  What multiplies the first: wState ($C000) has 12 values there.\n";
    assert!(rt; says(rt.alloc(), finding, ASSEMBLY, text) == Some(true));
    let finding = crowd(rt.alloc(), Multiplier::Stack)?;
    let text = "\n  What multiplies the first: the stack has 12 different contents there.\n";
    assert!(rt; says(rt.alloc(), finding, ASSEMBLY, text) == Some(true));
    Ok(())
}

/// A routine in a bank that may run when it is called.
fn recursion() -> Finding {
    Finding::Recursion {
        target: point(2, 0x4100),
    }
}

#[test]
fn the_fix_is_in_the_language(rt: HostRuntime) {
    let text = "The routine far (02:4100) can be called here while it still runs.";
    assert!(rt; says(rt.alloc(), recursion(), ASSEMBLY, text) == Some(true));
    let text = "<p>Turn the recursion into a loop that keeps its work in an array.</p>";
    assert!(rt; says(rt.alloc(), recursion(), ASSEMBLY, text) == Some(true));
    let text = "<p>Turn the recursion into a loop that keeps its work in a `static` array.</p>";
    assert!(rt; says(rt.alloc(), recursion(), C, text) == Some(true));
}

/// The game with a Color flag; the header's checksum counts it.
fn colored(flag: u8) -> [u8; 0x8000] {
    let mut rom = game();
    let checksum = rom[0x14D].wrapping_sub(flag);
    put(&mut rom, 0x143, &[flag]);
    put(&mut rom, 0x14D, &[checksum]);
    rom
}

/// What there is to say of the game's header, with a flag.
fn note(flag: u8) -> Option<Option<&'static str>> {
    let rom = colored(flag);
    let rom = Rom::parse(&rom).ok()?;
    Some(color_note(&rom))
}

#[test]
fn a_game_for_the_color(rt: HostRuntime) {
    assert!(rt; note(0x00) == Some(None));
    assert!(rt; note(0x7F) == Some(None));
    assert!(rt;
        note(0x80)
            == Some(Some(
                "The header has the Color flag ($0143 = $80), and the ROM is analysed as on a DMG. Code that only a Color runs isn't checked.",
            ))
    );
    assert!(rt;
        note(0xC0)
            == Some(Some(
                "The header says Game Boy Color only ($0143 = $C0), and the ROM is analysed as on a DMG. Code that only a Color runs isn't checked.",
            ))
    );
}
