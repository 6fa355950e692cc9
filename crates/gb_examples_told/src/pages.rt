//! The facts of a small game with a call and an interrupt, by hand, and what its page shows of them.

use crate::spelled::{EMPTY, Spelled, SpelledNode, SpelledProcedure, certificate};
use gb_page::{
    Bound, CallLink, Cert, CodePoint, CodeRun, EnteredBy, Extras, Facts, Finding, FindingsExtras,
    Interrupt, Rom, Screen, Symbols, Verdict, facts_json, findings_page, page_of,
};
use gb_samples::cartridges::{PLAIN, SMALLEST, put, small};
use std::alloc::Global;
use std::test::Fail;

/// LDH (FF),A at 0150, EI at 0152, CALL 0158 at 0153, JR 0153 at 0156, and NOP and RET at 0158. A is 01 at power-up, so VBlank is
/// enabled.
const PROGRAM: &[u8] = &[0xE0, 0xFF, 0xFB, 0xCD, 0x58, 0x01, 0x18, 0xFB, 0x00, 0xC9];

/// IE is 01, as A was; main's own was 00.
pub const IE_IS_1: &[(usize, u8)] = &[(16, 1), (17, 1), (18, 0)];

/// After EI, or once more: interrupts are on, or on after the next instruction.
const PENDING: &[(usize, u8)] = &[(0, 6), (16, 1), (17, 1), (18, 0)];

/// Interrupts are on, in main.
const ON: &[(usize, u8)] = &[(0, 4), (16, 1), (17, 1), (18, 0)];

/// Interrupts are on, and IE is 01 as at entry.
pub const OWN_ON: &[(usize, u8)] = &[(0, 4), (16, 1), (17, 1)];

/// Interrupts are off, and IE is 01 as at entry.
pub const OWN_OFF: &[(usize, u8)] = &[(16, 1), (17, 1)];

/// A procedure that writes nothing.
pub const SILENT: SpelledProcedure = SpelledProcedure {
    entry: 0,
    need: 0,
    ranges: &[0],
    exit: None,
};

/// Main, what it calls, and the handler, with the words of stack that they need.
pub const PROCEDURES: &[SpelledProcedure] = &[
    SpelledProcedure {
        entry: 0,
        need: 2,
        exit: None,
        ..SILENT
    },
    SpelledProcedure {
        entry: 6,
        need: 1,
        exit: Some(OWN_ON),
        ..SILENT
    },
    SpelledProcedure {
        entry: 8,
        need: 0,
        exit: Some(OWN_ON),
        ..SILENT
    },
];

/// Main and a procedure, where main's need is a word too small.
const TOO_FEW: &[SpelledProcedure] = &[
    SpelledProcedure {
        entry: 0,
        need: 1,
        exit: None,
        ..SILENT
    },
    SpelledProcedure {
        entry: 6,
        need: 1,
        exit: Some(OWN_ON),
        ..SILENT
    },
    SpelledProcedure {
        entry: 8,
        need: 0,
        exit: Some(OWN_ON),
        ..SILENT
    },
];

/// A node of main that holds nothing.
pub const BARE: SpelledNode = SpelledNode {
    procedure: 0,
    address: 0x0100,
    changes: &[],
    held: EMPTY,
};

pub const NODES: &[SpelledNode] = &[
    SpelledNode {
        procedure: 0,
        address: 0x0100,
        changes: &[],
        ..BARE
    },
    SpelledNode {
        procedure: 0,
        address: 0x0101,
        changes: &[],
        ..BARE
    },
    SpelledNode {
        procedure: 0,
        address: 0x0150,
        changes: &[],
        ..BARE
    },
    SpelledNode {
        procedure: 0,
        address: 0x0152,
        changes: IE_IS_1,
        ..BARE
    },
    SpelledNode {
        procedure: 0,
        address: 0x0153,
        changes: PENDING,
        ..BARE
    },
    SpelledNode {
        procedure: 0,
        address: 0x0156,
        changes: ON,
        ..BARE
    },
    SpelledNode {
        procedure: 1,
        address: 0x0158,
        changes: OWN_ON,
        ..BARE
    },
    SpelledNode {
        procedure: 1,
        address: 0x0159,
        changes: OWN_ON,
        ..BARE
    },
    SpelledNode {
        procedure: 2,
        address: 0x0040,
        changes: OWN_OFF,
        ..BARE
    },
];

const IN_BANK_0: CodeRun = CodeRun {
    bank: Some(0),
    first: 0,
    last: 0,
};

/// Code: RETI, NOP with the jump, and the program.
const CODE: &[CodeRun] = &[
    CodeRun {
        first: 0x0040,
        last: 0x0040,
        ..IN_BANK_0
    },
    CodeRun {
        first: 0x0100,
        last: 0x0103,
        ..IN_BANK_0
    },
    CodeRun {
        first: 0x0150,
        last: 0x0159,
        ..IN_BANK_0
    },
];

/// A call below which a return word waits alone.
const CALL: CallLink = CallLink {
    caller: 0,
    callee: None,
    by: EnteredBy::Call,
    nodes: 1,
    waiting: 2,
    node: 0,
};

/// By VBlank.
const VBLANK: EnteredBy = EnteredBy::Interrupt(Interrupt::VBlank);

/// Main calls at 0153; VBlank may come at 0153 and 0156, and at both nodes of what is called.
const LINKS: &[CallLink] = &[
    CallLink {
        caller: 0,
        callee: Some(1),
        by: EnteredBy::Call,
        nodes: 1,
        node: 4,
        ..CALL
    },
    CallLink {
        caller: 0,
        callee: Some(2),
        by: VBLANK,
        nodes: 2,
        node: 4,
        ..CALL
    },
    CallLink {
        caller: 1,
        callee: Some(2),
        by: VBLANK,
        nodes: 2,
        node: 6,
        ..CALL
    },
];

/// The numbers of each procedure: its first node, its address, its nodes, what it needs, and how deep it gets.
const NUMBERS: &[(u32, u16, u32, u16, u32)] = &[
    (0, 0x0100, 6, 4, 4),
    (6, 0x0158, 2, 2, 2),
    (8, 0x0040, 1, 0, 0),
];

/// The game.
pub fn game() -> [u8; SMALLEST] {
    let mut rom = small(PLAIN, PROGRAM);
    put(&mut rom, 0x40, &[0xD9]);
    rom
}

/// Whether the procedures' numbers are those by hand.
fn are_numbers(facts: &Facts) -> bool {
    let mut are_equal = facts.procedures.len() == NUMBERS.len();
    for (procedure, numbers) in facts.procedures.iter().zip(NUMBERS) {
        let found = (
            procedure.entry,
            procedure.address,
            procedure.nodes,
            procedure.need,
            procedure.depth,
        );
        are_equal = are_equal && found == *numbers;
    }
    are_equal
}

/// The next procedure on the deepest way.
fn next_of(facts: &Facts, procedure: u16) -> Option<u16> {
    facts.step(procedure)?.link?.callee
}

/// Whether all facts are those by hand.
fn are_told(facts: &Facts) -> bool {
    facts.verdict
        == Verdict::Accepted {
            nodes: 9,
            procedures: 3,
        }
        && facts.code.as_slice() == CODE
        && facts.links.as_slice() == LINKS
        && are_numbers(facts)
        && facts.bound == Bound::Known
        && facts.room() == 126
        && next_of(facts, 0) == Some(1)
        && next_of(facts, 1) == Some(2)
        && next_of(facts, 2).is_none()
}

/// Whether the game's facts are those by hand.
fn agrees(alloc: Global) -> Option<bool> {
    let rom = game();
    let bytes = certificate(PROCEDURES, NODES);
    let rom = Rom::parse(&rom).ok()?;
    let cert = Cert::parse(alloc, bytes.as_slice()).ok()?;
    let facts = Facts::of(alloc, &rom, &cert).ok()?;
    Some(are_told(&facts))
}

/// The page of a certificate of the game, with what else is shown.
fn page_with(alloc: Global, bytes: &Spelled, symbols: &[u8], extras: Extras<'_>) -> Option<String> {
    let rom = game();
    let rom = Rom::parse(&rom).ok()?;
    let cert = Cert::parse(alloc, bytes.as_slice()).ok()?;
    let symbols = Symbols::parse(alloc, symbols).ok()?;
    page_of(alloc, &rom, &cert, &symbols, extras).ok()
}

/// The page of a certificate of the game.
fn page(alloc: Global, bytes: &Spelled, symbols: &[u8]) -> Option<String> {
    page_with(alloc, bytes, symbols, Extras::none())
}

#[test]
fn facts_of_a_small_game(rt: HostRuntime) {
    assert!(rt; agrees(rt.alloc()) == Some(true));
}

#[test]
fn names_are_escaped(rt: HostRuntime) -> Result<(), Fail> {
    let bytes = certificate(PROCEDURES, NODES);
    let page = page(rt.alloc(), &bytes, b"00:0158 <i>&\"'\n").ok_or("a page")?;
    let text = page.as_str();
    assert!(rt; text.contains("ACCEPTED nodes 9 procedures 3"));
    assert!(rt; text.contains("<a href=\"#p1\">&lt;i&gt;&amp;&quot;&#39;</a>"));
    assert!(rt; !text.contains("<i>"));
    Ok(())
}

#[test]
fn a_refusal_leads_to_its_node(rt: HostRuntime) -> Result<(), Fail> {
    let bytes = certificate(TOO_FEW, NODES);
    let page = page(rt.alloc(), &bytes, b"").ok_or("a page")?;
    let text = page.as_str();
    assert!(rt; text.contains("REFUSED node 4 reason 9"));
    assert!(rt; text.contains("refuses this certificate at node 4, <a href=\"#n4\">"));
    Ok(())
}

/// The page of two findings: the stack begins in ROM, and procedures call one another.
fn findings(alloc: Global) -> Option<String> {
    let rom = game();
    let rom = Rom::parse(&rom).ok()?;
    let symbols = Symbols::parse(alloc, b"00:0158 a<b\n").ok()?;
    let findings = [
        Finding::NoStack { sp: 0x8000 },
        Finding::Recursion {
            target: CodePoint {
                address: 0x0158,
                bank: Some(0),
            },
        },
    ];
    let extras = FindingsExtras {
        are_new: true,
        ..FindingsExtras::none()
    };
    findings_page(alloc, &rom, &findings, &symbols, extras).ok()
}

#[test]
fn findings_are_shown(rt: HostRuntime) -> Result<(), Fail> {
    let page = findings(rt.alloc()).ok_or("a page")?;
    let text = page.as_str();
    assert!(rt; text.contains("NO CERTIFICATE obstacles 2"));
    assert!(rt; text.contains("so all of this is new"));
    assert!(rt; text.contains("<a href=\"#o2\">"));
    assert!(rt; text.contains("<section id=\"o2\">"));
    assert!(rt; text.contains("a&lt;b"));
    assert!(rt; !text.contains("a<b"));
    assert!(rt; text.contains("<pre>`ld sp, $8000` leaves no room for a stack.</pre>"));
    assert!(rt; text.contains("<p class=\"quiet\">More: docs/FINDINGS.md#no-stack</p>"));
    assert!(rt; text.contains("<p class=\"quiet\">More: docs/FINDINGS.md#recursion</p>"));
    assert!(rt; text.contains("<h3>How to fix it</h3>"));
    assert!(rt; !text.contains("How the code gets there"));
    assert!(rt; !text.contains("What is known there"));
    Ok(())
}

/// The links by hand as JSON.
const LINKS_JSON: &str =
    "\"links\":[{\"by\":\"call\",\"callee\":1,\"caller\":0,\"node\":4,\"nodes\":1,\"waiting\":2},{\"by\":\"VBlank\",\"callee\":2,\"caller\":0,\"node\":4,\"nodes\":2,\"waiting\":2},{\"by\":\"VBlank\",\"callee\":2,\"caller\":1,\"node\":6,\"nodes\":2,\"waiting\":2}]";

/// The game's facts as JSON.
fn json(alloc: Global, bytes: &Spelled) -> Option<String> {
    let rom = game();
    let rom = Rom::parse(&rom).ok()?;
    let cert = Cert::parse(alloc, bytes.as_slice()).ok()?;
    let symbols = Symbols::parse(alloc, b"00:0158 a\"b\n").ok()?;
    facts_json(alloc, &rom, &cert, &symbols, Extras::none()).ok()
}

#[test]
fn facts_for_programs(rt: HostRuntime) -> Result<(), Fail> {
    let bytes = certificate(PROCEDURES, NODES);
    let json = json(rt.alloc(), &bytes).ok_or("facts")?;
    let text = json.as_str();
    assert!(rt; text.contains(LINKS_JSON));
    assert!(rt; text.contains("\"refused\":null"));
    assert!(rt; text.contains("\"room\":126,\"used\":4"));
    assert!(rt; text.contains("{\"bank\":0,\"first\":336,\"last\":345}"));
    assert!(rt; text.contains("\"symbol\":\"a\\\"b\""));
    Ok(())
}

#[test]
fn a_refusal_for_programs(rt: HostRuntime) -> Result<(), Fail> {
    let bytes = certificate(TOO_FEW, NODES);
    let json = json(rt.alloc(), &bytes).ok_or("facts")?;
    assert!(rt;
        json.as_str()
            .contains("\"refused\":{\"node\":4,\"reason\":9}")
    );
    Ok(())
}

/// What the page says of the stack: 126 bytes, of which 2 wait below the call and 2 below the handler in what is called.
const STACK: &[&str] = &[
    "The stack’s area is <code>$FF80-$FFFD</code>, 126 bytes. At most <b>4 bytes</b> are ever used, so <b>122</b> are free.",
    "<tr><td><a href=\"#p0\">main</a></td><td class=\"number\">2</td><td>call</td><td><a href=\"#n4\"><code>00:0153</code></a>",
    "<tr><td><a href=\"#p1\">draw</a></td><td class=\"number\">2</td><td>VBlank</td><td><a href=\"#n6\"><code>00:0158</code></a>",
    "<tr><td><a href=\"#p2\">VBlank handler</a></td><td class=\"number\">0</td><td>its own bytes</td><td><a href=\"#n8\"><code>00:0040</code></a>",
    "<td><a href=\"#p0\">main</a></td><td><code>00:0100</code></td><td class=\"number\">6</td><td class=\"number\">0</td><td class=\"number\">4</td><td class=\"number\">4</td>",
    "<td><a href=\"#p1\">draw</a></td><td><code>00:0158</code></td><td class=\"number\">2</td><td class=\"number\">0</td><td class=\"number\">2</td><td class=\"number\">2</td>",
];

/// What it says of interrupts, of banks, and of what is called: VBlank may come at 4 nodes, the code has 15 bytes, and NOP and RET
/// change nothing.
const REST: &[&str] = &[
    "<td>VBlank</td><td><code>$0040</code></td><td class=\"number\">4</td><td><a href=\"#p2\">VBlank handler</a> ",
    "<td>timer</td><td><code>$0050</code></td><td class=\"number\">0</td><td></td><td class=\"quiet\">never fires</td>",
    "none, so handlers don’t nest.",
    "<span class=\"number\">15 bytes</span>",
    "<span class=\"name\">bank 01</span>",
    "<span class=\"number\">not reached</span>",
    "<dt>called from</dt><dd><span class=\"item\"><a href=\"#p0\">main</a> <span class=\"quiet\">(call, 1)</span></span> </dd>",
    "<dt>calls</dt><dd><span class=\"item\"><a href=\"#p2\">VBlank handler</a> <span class=\"quiet\">(VBlank, 2)</span></span> </dd>",
    "<dt>can write</dt><dd>no RAM</dd>",
    "<dt>preserves</dt><dd>A F B C D E H L IE banks and RAM gate</dd>",
    "<dt>returns</dt><dd>never</dd>",
    "Listing, 6 nodes",
    "id=\"n4\"><a class=\"at\" href=\"#n4\">00:0153</a><span class=\"symbol\"></span><span class=\"op\"><a href=\"#n6\">CALL $0158</a></span>",
];

/// The first of some texts that another one doesn't have.
fn first_missing(text: &str, wanted: &[&'static str]) -> Option<&'static str> {
    for part in wanted {
        if !text.contains(*part) {
            return Some(*part);
        }
    }
    None
}

#[test]
fn figures_of_a_page(rt: HostRuntime) -> Result<(), Fail> {
    let bytes = certificate(PROCEDURES, NODES);
    let page = page(rt.alloc(), &bytes, b"00:0158 draw\n").ok_or("a page")?;
    assert!(rt; first_missing(page.as_str(), STACK).is_none());
    assert!(rt; first_missing(page.as_str(), REST).is_none());
    Ok(())
}

#[test]
fn the_label_below_the_stack(rt: HostRuntime) -> Result<(), Fail> {
    let bytes = certificate(PROCEDURES, NODES);
    // Of FF80 to FFFD the last 4 bytes are used, from FFFA on.
    let page = page(rt.alloc(), &bytes, b"00:FF90 hBelow\n00:FFFE hAbove\n").ok_or("a page")?;
    let text = page.as_str();
    assert!(rt;
        text.contains(
            "The next label below is <span class=\"symbol\">hBelow</span> at <code>$FF90</code>: <b>106 bytes</b> below the deepest push."
        )
    );
    assert!(rt; text.contains("<rect class=\"used\" x=\"122\" width=\"4\" height=\"1\">"));
    assert!(rt; !text.contains("<rect class=\"over\""));
    Ok(())
}

#[test]
fn a_listing_is_cut(rt: HostRuntime) -> Result<(), Fail> {
    let bytes = certificate(PROCEDURES, NODES);
    let extras = Extras {
        listed: 5,
        ..Extras::none()
    };
    let page = page_with(rt.alloc(), &bytes, b"", extras).ok_or("a page")?;
    let text = page.as_str();
    assert!(rt; text.contains("This page lists the first 5 of 9 nodes."));
    assert!(rt; text.contains("id=\"n4\""));
    assert!(rt; !text.contains("id=\"n5\""));
    assert!(rt; !text.contains("href=\"#n5\""));
    assert!(rt; !text.contains("href=\"#n6\""));
    Ok(())
}

/// A screen with four dark pixels in its third line, and one in its last corner.
fn screen() -> Screen {
    let mut screen = [[0; 160]; 144];
    for x in 3..7 {
        screen[2][x] = 3;
    }
    screen[143][159] = 1;
    screen
}

#[test]
fn a_screen_is_drawn(rt: HostRuntime) -> Result<(), Fail> {
    let bytes = certificate(PROCEDURES, NODES);
    let screen = screen();
    let extras = Extras {
        screen: Some(&screen),
        ..Extras::none()
    };
    let page = page_with(rt.alloc(), &bytes, b"", extras).ok_or("a page")?;
    let text = page.as_str();
    assert!(rt; text.contains("<a href=\"#screen\">"));
    assert!(rt; text.contains("<path class=\"shade1\" d=\"M159 143h1v1h-1z\"/>"));
    assert!(rt; text.contains("<path class=\"shade2\" d=\"\"/>"));
    assert!(rt; text.contains("<path class=\"shade3\" d=\"M3 2h4v1h-4z\"/>"));
    Ok(())
}
