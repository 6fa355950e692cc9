//! What is said of keys that crash a game, by hand: on the page of its findings, and as JSON.

use crate::pages::game;
use gb_ops::machine::{CodePlace, Region};
use gb_page::{
    Crash, CrashFinding, Finding, FindingsExtras, Rom, Screen, Symbols, crash_json, findings_page,
};
use std::alloc::Global;
use std::test::Fail;

/// The names of the game.
const SYMBOLS: &[u8] = b"00:0158 draw\n";

/// A screen whose only dark pixel is the sixth of the third line.
fn screen() -> Screen {
    let mut screen = [[0; 160]; 144];
    screen[2][5] = 3;
    screen
}

/// Seven frames without a key and one with A, whose texts have markup.
fn crash<'a>(screen: &'a Screen) -> Crash<'a> {
    Crash {
        line: "FAULT F4 frame 7 pc 0158 bank 000",
        fault: 4,
        frame: 7,
        place: CodePlace {
            address: 0x0158,
            bank: 0,
        },
        story: "frame 7: a<b",
        keys: "none for 7 frames, A for 1",
        key_words: "7 1A",
        keys_file: Some("x.crash.keys"),
        replay: "gulmyrek watch x<y.gb x.crash.keys 8 --stack C000..DFFF",
        region: Region {
            first: 0xC000,
            last: 0xDFFF,
        },
        finding: CrashFinding::First,
        screen,
    }
}

/// The page of a finding, with a crash that belongs to it so.
fn page(alloc: Global, finding: CrashFinding) -> Option<String> {
    let rom = game();
    let rom = Rom::parse(&rom).ok()?;
    let symbols = Symbols::parse(alloc, SYMBOLS).ok()?;
    let screen = screen();
    let crash = Crash {
        finding,
        ..crash(&screen)
    };
    let extras = FindingsExtras {
        are_new: false,
        crash: Some(&crash),
    };
    findings_page(alloc, &rom, &[Finding::Internal], &symbols, extras).ok()
}

/// What the page has of it, in this order.
const PARTS: &[&str] = &[
    "<a href=\"#crash\">Crash</a> <a href=\"#o1\">",
    "<section id=\"crash\"><h2>This crashes</h2>",
    "<p><code>FAULT F4 frame 7 pc 0158 bank 000</code></p>",
    "<a href=\"#o1\">Finding 1</a> is at this place.",
    "<pre>frame 7: a&lt;b</pre>",
    "<p>none for 7 frames, A for 1</p>",
    "<code>gulmyrek watch x&lt;y.gb x.crash.keys 8 --stack C000..DFFF</code>",
    "<path class=\"shade3\" d=\"M5 2h1v1h-1z\"/></svg>",
    "<section id=\"o1\">",
];

/// Whether a text has parts one after another.
fn has_in_order(text: &str, parts: &[&str]) -> bool {
    let mut left = text;
    for part in parts {
        match left.split_once(*part) {
            Some((_, rest)) => left = rest,
            None => return false,
        }
    }
    true
}

#[test]
fn a_crash_comes_first(rt: HostRuntime) -> Result<(), Fail> {
    let page = page(rt.alloc(), CrashFinding::First).ok_or("a page")?;
    assert!(rt; has_in_order(page.as_str(), PARTS));
    Ok(())
}

#[test]
fn a_crash_elsewhere(rt: HostRuntime) -> Result<(), Fail> {
    let page = page(rt.alloc(), CrashFinding::Unknown).ok_or("a page")?;
    assert!(rt;
        page.as_str()
            .contains("<p>No finding is at this place.</p>")
    );
    assert!(rt; !page.as_str().contains("Finding 1</a> is"));
    Ok(())
}

#[test]
fn a_finding_that_ran_before(rt: HostRuntime) -> Result<(), Fail> {
    let page = page(rt.alloc(), CrashFinding::Before(2)).ok_or("a page")?;
    let text = "The instruction of <a href=\"#o2\">finding 2</a> ran before it, in the same frame.";
    assert!(rt; page.as_str().contains(text));
    Ok(())
}

/// 0158 is 344, C000 is 49,152 and DFFF is 57,343.
const JSON: &str =
    "{\"crash\":{\"address\":344,\"bank\":0,\"fault\":4,\"finding\":1,\"frame\":7,\"is_at_finding\":true,\"keys\":\"7 1A\",\"keys_file\":\"x.crash.keys\",\"line\":null,\"stack\":{\"first\":49152,\"last\":57343},\"story\":\"frame 7: a<b\",\"symbol\":\"draw\"}}";

/// The crash as JSON.
fn json(alloc: Global) -> Option<String> {
    let symbols = Symbols::parse(alloc, SYMBOLS).ok()?;
    let screen = screen();
    crash_json(alloc, &crash(&screen), &symbols).ok()
}

#[test]
fn a_crash_for_programs(rt: HostRuntime) -> Result<(), Fail> {
    let json = json(rt.alloc()).ok_or("a crash")?;
    assert!(rt; json.as_str() == JSON);
    Ok(())
}
