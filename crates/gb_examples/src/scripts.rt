//! Runs by a script, and what is written of them.

ghost use Rattle.std.specs.Prelude.{◌≡◌, false};

use gb_samples::cartridges::{PLAIN, put, small};
use gb_samples::programs::{DRAWS, LOCKS_AT_A, LOOP, OBJECTS, WAITS, WAITS_A_SECOND, tiles};
use gb_text::kept_bytes::KeptBytes;
use gb_text::sink::OutFault;
use gb_text::{HeaderFault, Rom};
use gb_witness::{Console, Ending, Progress, RunOutcome, run_bytes, run_script, run_script_shown};
use std::alloc::{AllocError, Global};
use std::test::Fail;

/// More bytes than a run's text has.
const ROOM: usize = 12_000;

/// A sink with room for a run's text.
fn room() -> KeptBytes
    ensures { result.has_failed ≡ false }
{
    KeptBytes::new(4_000, ROOM)
}

/// A run from power-up.
fn run(
    alloc: Global,
    bytes: &[u8],
    script: &[u8],
    frames: u32,
    out: &mut KeptBytes,
) -> Result<Result<Ending, OutFault>, Fail>
    requires { out.old.has_failed ≡ false }
{
    let rom = Rom::parse(bytes)?;
    let mut console = Console::new(alloc, &rom)?;
    Ok(run_script(&mut console, script, frames, out))
}

/// Lines of a screen: so many of these digits, then zeros up to 144, and a last line.
fn text(alloc: Global, count: u8, digits: &[u8], last: &[u8]) -> Result<Vec<u8>, AllocError> {
    let mut text = Vec::new(alloc);
    for i in 0..144u8 {
        let line = if i < count { digits } else { &[b'0'; 80] };
        text.extend_from_slice(line)?;
        text.extend_from_slice(b"\n")?;
    }
    text.extend_from_slice(last)?;
    Ok(text)
}

/// The ending that a line tells.
fn ending_of(line: &[u8]) -> Ending {
    match line.first() {
        Some(b'L') => Ending::Locked,
        Some(b'S') => Ending::Stopped,
        _ => Ending::Whole,
    }
}

/// A program, a script, frames, and the last line of the text; the screen stays light.
type Case<'a> = (&'a [u8], &'a [u8], u32, &'a [u8]);

const CASES: [Case<'static>; 12] = [
    (LOOP, &[], 1, b"WHOLE frames 1\n"),
    (LOOP, &[], 0, b"WHOLE frames 0\n"),
    (&[0xD3, 0xFE], &[], 1, b"LOCKED frame 0 pc 0150\n"),
    (&[0x10, 0x00], &[], 1, b"STOPPED frame 0 pc 0150\n"),
    (&[0x10, 0x00], &[], 0, b"WHOLE frames 0\n"),
    (WAITS, &[], 3, b"WHOLE frames 3\n"),
    // Byte k of a script holds the keys of frame k, the key A in bit 0.
    (LOCKS_AT_A, &[0, 0, 1], 5, b"LOCKED frame 2 pc 015A\n"),
    (LOCKS_AT_A, &[0, 0, 1], 2, b"WHOLE frames 2\n"),
    (LOCKS_AT_A, &[0, 0, 1, 0], 3, b"LOCKED frame 2 pc 015A\n"),
    (LOCKS_AT_A, &[0, 0], 4, b"WHOLE frames 4\n"),
    (
        LOCKS_AT_A,
        &[0xFE, 0x80, 0xFF],
        4,
        b"LOCKED frame 2 pc 015A\n",
    ),
    (LOCKS_AT_A, &[0xFE, 0x80, 0x7E], 4, b"WHOLE frames 4\n"),
];

/// Whether a run ends so, and writes the beginning of this text, as much as there is room for.
fn ends(
    alloc: Global,
    bytes: &[u8],
    script: &[u8],
    frames: u32,
    most: usize,
    ending: Result<Ending, OutFault>,
    text: &[u8],
) -> Result<bool, Fail> {
    let mut out = KeptBytes::new(7, most);
    let ended = run(alloc, bytes, script, frames, &mut out)?;
    Ok(ended == ending && Some(out.kept()) == text.get(..most.min(text.len())))
}

/// Whether a run ends with its line.
fn agrees(alloc: Global, case: &Case<'_>) -> Result<bool, Fail> {
    let (program, script, frames, line) = *case;
    let mut bytes = small(PLAIN, program);
    put(&mut bytes, 0x40, &[0xD9]);
    let text = text(alloc, 0, b"", line)?;
    ends(
        alloc,
        &bytes,
        script,
        frames,
        ROOM,
        Ok(ending_of(line)),
        text.as_slice(),
    )
}

#[test]
fn runs_end_with_their_line(rt: HostRuntime) -> Result<(), Fail> {
    for case in &CASES {
        assert!(rt; agrees(rt.alloc(), case)?);
    }
    Ok(())
}

/// An MBC3 cartridge with a clock, whose first second passes with frame 59.
#[test]
fn a_second_passes_with_each_sixtieth_frame(rt: HostRuntime) -> Result<(), Fail> {
    let bytes = small([0x0F, 0x00, 0x00], WAITS_A_SECOND);
    let text = text(rt.alloc(), 0, b"", b"LOCKED frame 59 pc 0168\n")?;
    let ending = Ok(Ending::Locked);
    assert!(rt; ends(rt.alloc(), &bytes, &[], 200, ROOM, ending, text.as_slice())?);
    Ok(())
}

/// Ten objects on lines 0 to 7, in digits of four pixels a byte.
#[test]
fn a_screen_is_drawn(rt: HostRuntime) -> Result<(), Fail> {
    let mut bytes = small(PLAIN, DRAWS);
    put(&mut bytes, 0x200, &tiles());
    put(&mut bytes, 0x230, &OBJECTS);
    let line = b"ffff0000aaaaffffffffffffffffffffffffffff0000000000000000000000000000000000000000";
    let text = text(rt.alloc(), 8, line, b"WHOLE frames 2\n")?;
    let ending = Ok(Ending::Whole);
    assert!(rt; ends(rt.alloc(), &bytes, &[], 2, ROOM, ending, text.as_slice())?);
    Ok(())
}

/// Room within the first line, at its end, within the last, and just before its end.
const FAILING: [usize; 7] = [0, 40, 80, 81, 11_664, 11_670, 11_686];

#[test]
fn a_sink_that_fails_has_a_beginning(rt: HostRuntime) -> Result<(), Fail> {
    let bytes = small(PLAIN, &[0xD3]);
    let text = text(rt.alloc(), 0, b"", b"LOCKED frame 0 pc 0150\n")?;
    for most in FAILING {
        let ending = Err(OutFault);
        assert!(rt; ends(rt.alloc(), &bytes, &[], 1, most, ending, text.as_slice())?);
    }
    let ending = Ok(Ending::Locked);
    assert!(rt; ends(rt.alloc(), &bytes, &[], 1, 11_687, ending, text.as_slice())?);
    Ok(())
}

/// Hears the numbers of frames.
#[derive(Drop)]
struct Counter {
    heard: u32,
    next: u32,
    is_done: bool,
}

fn at_rest() -> Counter {
    Counter {
        heard: 0,
        next: 0,
        is_done: false,
    }
}

impl Progress for Counter {
    fn frame(&mut self, number: u32, frames: u32) {
        if number == self.next && frames == 4 && !self.is_done {
            self.heard = self.heard.wrapping_add(1);
        }
        self.next = number.wrapping_add(1);
    }

    fn done(&mut self) {
        self.is_done = true;
    }
}

/// Whether each of the three frames is heard of, and the end.
fn hears(alloc: Global) -> Result<bool, Fail> {
    let bytes = small(PLAIN, LOCKS_AT_A);
    let rom = Rom::parse(&bytes)?;
    let mut console = Console::new(alloc, &rom)?;
    let (mut out, mut counter) = (room(), at_rest());
    let ended = run_script_shown(&mut console, &[0, 0, 1], 4, &mut out, &mut counter);
    Ok(ended == Ok(Ending::Locked) && counter.heard == 3 && counter.is_done)
}

#[test]
fn progress_is_heard_of_each_frame(rt: HostRuntime) -> Result<(), Fail> {
    assert!(rt; hears(rt.alloc())?);
    Ok(())
}

/// A checksum, a program, what becomes of the file, and its line.
type File = (u8, &'static [u8], RunOutcome, &'static [u8]);

const FILES: [File; 3] = [
    (
        0xE7,
        LOOP,
        RunOutcome::Ended(Ending::Whole),
        b"WHOLE frames 3\n",
    ),
    (
        0xE7,
        &[0x10],
        RunOutcome::Ended(Ending::Stopped),
        b"STOPPED frame 0 pc 0150\n",
    ),
    (
        0xE6,
        LOOP,
        RunOutcome::NoCartridge(HeaderFault::Checksum),
        b"CARTRIDGE H7\n",
    ),
];

/// What is written of a file: a screen and the line, or the line alone where nothing was run.
fn text_of(alloc: Global, file: &File) -> Result<Vec<u8>, AllocError> {
    let (_, _, outcome, line) = *file;
    match outcome {
        RunOutcome::Ended(_) => text(alloc, 0, b"", line),
        _ => Vec::from_slice(alloc, line),
    }
}

/// Whether a run of this file is this, and writes the beginning of its text, as much as there is room for.
fn runs(
    alloc: Global,
    file: &File,
    became: Result<RunOutcome, OutFault>,
    most: usize,
) -> Result<bool, Fail> {
    let (checksum, program, _, _) = *file;
    let mut bytes = small(PLAIN, program);
    put(&mut bytes, 0x14D, &[checksum]);
    let text = text_of(alloc, file)?;
    let mut out = KeptBytes::new(4_000, most);
    let ended = run_bytes(alloc, &bytes, &[], 3, &mut out, &mut at_rest());
    Ok(ended == became && Some(out.kept()) == text.get(..most.min(text.len())))
}

#[test]
fn a_file_is_run_or_its_fault_is_written(rt: HostRuntime) -> Result<(), Fail> {
    for file in FILES {
        assert!(rt; runs(rt.alloc(), &file, Ok(file.2), ROOM)?);
        assert!(rt; runs(rt.alloc(), &file, Err(OutFault), 10)?);
    }
    Ok(())
}

/// Where an allocation is refused, nothing is written and nothing ran.
#[test]
fn a_file_is_run_or_wants_memory(rt: HostRuntime) {
    let bytes = small(PLAIN, LOOP);
    let mut out = room();
    let mut counter = at_rest();
    match run_bytes(rt.alloc(), &bytes, &[], 4, &mut out, &mut counter) {
        Ok(RunOutcome::NoMemory) => {
            assert!(rt; out.kept().is_empty());
            assert!(rt; counter.heard == 0 && !counter.is_done);
        }
        became => {
            assert!(rt; became == Ok(RunOutcome::Ended(Ending::Whole)));
            assert!(rt; counter.heard == 4 && counter.is_done);
        }
    }
}
