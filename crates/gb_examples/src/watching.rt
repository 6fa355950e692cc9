//! Scripts that are watched. Each line follows from the rules of the machine (docs/MACHINE.md), by hand: where the program's bytes
//! put the instruction that is at fault, and which faults its accesses have there.

ghost use Rattle.std.specs.Prelude.{◌≡◌, false};

use gb_ops::machine::{CodePlace, Faults, Region};
use gb_samples::cartridges::{PLAIN, small};
use gb_samples::programs::{LOCKS_AT_A, LOOP};
use gb_text::Rom;
use gb_text::kept_bytes::KeptBytes;
use gb_text::sink::OutFault;
use gb_witness::{
    Console, CountedIn, FoundStack, WatchedRun, fault_line, find_stack, no_fault_line, watch_script,
};
use std::alloc::Global;
use std::test::Fail;

/// The stack region of all cases.
const STACK: Region = Region {
    first: 0xC000,
    last: 0xCFFF,
};

/// A program at 0150, a script, frames, and the line.
type Case<'a> = (&'a [u8], &'a [u8], u32, &'a [u8]);

const CASES: [Case<'static>; 16] = [
    (LOOP, &[], 2, b"WHOLE frames 2\n"),
    (&[0x10, 0x00], &[], 1, b"STOPPED frame 0 pc 0150\n"),
    // An undefined opcode.
    (&[0xD3], &[], 1, b"FAULT F1 frame 0 pc 0150 bank 000\n"),
    (&[0xD3], &[], 0, b"WHOLE frames 0\n"),
    // In the frame with the key A.
    (
        LOCKS_AT_A,
        &[0, 0, 1],
        5,
        b"FAULT F1 frame 2 pc 015A bank 000\n",
    ),
    // JP 8000: the byte there is fetched from video RAM.
    (
        &[0xC3, 0x00, 0x80],
        &[],
        1,
        b"FAULT F2 frame 0 pc 8000 bank 000\n",
    ),
    // JP A000: outside of code, and cartridge RAM that is disabled; the lower number is told.
    (
        &[0xC3, 0x00, 0xA0],
        &[],
        1,
        b"FAULT F2 frame 0 pc A000 bank 000\n",
    ),
    // JP FFFF: the byte there is IE.
    (
        &[0xC3, 0xFF, 0xFF],
        &[],
        1,
        b"FAULT F2 frame 0 pc FFFF bank 000\n",
    ),
    // LD SP,C000; PUSH AF: BFFF and BFFE are below the stack, and cartridge RAM.
    (
        &[0x31, 0x00, 0xC0, 0xF5],
        &[],
        1,
        b"FAULT F3 frame 0 pc 0153 bank 000\n",
    ),
    // LD SP,C001; CALL 0157: the high byte at C000 is inside, the low one at BFFF outside.
    (
        &[0x31, 0x01, 0xC0, 0xCD, 0x57, 0x01, 0x00, 0x18, 0xFE],
        &[],
        1,
        b"FAULT F3 frame 0 pc 0153 bank 000\n",
    ),
    // LD SP,D000; PUSH AF; JR: the first word of the stack.
    (
        &[0x31, 0x00, 0xD0, 0xF5, 0x18, 0xFE],
        &[],
        1,
        b"WHOLE frames 1\n",
    ),
    // LD SP,D002; RST 38: above the stack.
    (
        &[0x31, 0x02, 0xD0, 0xFF],
        &[],
        1,
        b"FAULT F3 frame 0 pc 0153 bank 000\n",
    ),
    // LD A,(A000) in a cartridge without RAM.
    (
        &[0xFA, 0x00, 0xA0],
        &[],
        1,
        b"FAULT F4 frame 0 pc 0150 bank 000\n",
    ),
    // LD A,A0; LDH (46),A: the transfer copies from cartridge RAM.
    (
        &[0x3E, 0xA0, 0xE0, 0x46],
        &[],
        1,
        b"FAULT F4 frame 0 pc 0152 bank 000\n",
    ),
    // LD SP,D000; LD A,C0; LDH (46),A: the next byte is fetched from ROM while the transfer runs. The console gives FF there, RST 38,
    // whose push is inside the stack and has the same fault.
    (
        &[0x31, 0x00, 0xD0, 0x3E, 0xC0, 0xE0, 0x46],
        &[],
        1,
        b"FAULT F5 frame 0 pc 0157 bank 000\n",
    ),
    // LD HL,4000; JP (HL) in bank 1 of a cartridge whose rest is 00: 16,384 NOPs lead from 4000 into video RAM, in the first frame of 17,556 M-cycles.
    (
        &[0x21, 0x00, 0x40, 0xE9],
        &[],
        1,
        b"FAULT F2 frame 0 pc 8000 bank 000\n",
    ),
];

/// A watched run from power-up, whose line goes to a sink with so much room.
fn watched(
    alloc: Global,
    case: &Case<'_>,
    out: &mut KeptBytes,
) -> Result<Result<WatchedRun, OutFault>, Fail>
    requires { out.old.has_failed ≡ false }
{
    let (program, script, frames, _) = *case;
    let bytes = small(PLAIN, program);
    let rom = Rom::parse(&bytes)?;
    let mut console = Console::new(alloc, &rom)?;
    Ok(watch_script(&mut console, script, frames, STACK, out))
}

/// Whether a case ends with its line.
fn agrees(alloc: Global, case: &Case<'_>) -> Result<bool, Fail> {
    let mut out = KeptBytes::new(7, 96);
    let is_told = watched(alloc, case, &mut out)?.is_ok();
    Ok(is_told && out.kept() == case.3)
}

#[test]
fn watched_scripts_end_with_their_line(rt: HostRuntime) -> Result<(), Fail> {
    for (i, case) in CASES.iter().enumerate() {
        assert!(rt; agrees(rt.alloc(), case)?, "case {i}");
    }
    Ok(())
}

/// Whether a sink with too little room has a beginning of the line.
fn begins(alloc: Global, case: &Case<'_>, most: usize) -> Result<bool, Fail> {
    let mut out = KeptBytes::new(7, most);
    let is_failed = watched(alloc, case, &mut out)?.is_err();
    Ok(is_failed && Some(out.kept()) == case.3.get(..most))
}

#[test]
fn a_full_sink_has_a_beginning_of_the_line(rt: HostRuntime) -> Result<(), Fail> {
    for most in [0, 1, 20, 33] {
        assert!(rt; begins(rt.alloc(), &CASES[2], most)?);
    }
    Ok(())
}

/// A program, and the stack that its run sets up.
const FOUND: [(&[u8], FoundStack); 5] = [
    // None: SP is FFFE at power-up.
    (
        LOOP,
        FoundStack::Below(Region {
            first: 0xFF80,
            last: 0xFFFD,
        }),
    ),
    // LD SP,D000.
    (
        &[0x31, 0x00, 0xD0, 0x18, 0xFE],
        FoundStack::Below(Region {
            first: 0xC000,
            last: 0xCFFF,
        }),
    ),
    // LD SP,E000; LD SP,D000: the first counts.
    (
        &[0x31, 0x00, 0xE0, 0x31, 0x00, 0xD0, 0x18, 0xFE],
        FoundStack::Below(Region {
            first: 0xC000,
            last: 0xDFFF,
        }),
    ),
    // LD SP,C000: the bytes below are cartridge RAM.
    (&[0x31, 0x00, 0xC0, 0x18, 0xFE], FoundStack::NotRam(0xC000)),
    // LD SP,FFFF.
    (
        &[0x31, 0xFF, 0xFF, 0x18, 0xFE],
        FoundStack::Below(Region {
            first: 0xFF80,
            last: 0xFFFE,
        }),
    ),
];

/// The stack that a program's run sets up.
fn found(alloc: Global, program: &[u8]) -> Result<FoundStack, Fail> {
    let bytes = small(PLAIN, program);
    let rom = Rom::parse(&bytes)?;
    let mut console = Console::new(alloc, &rom)?;
    Ok(find_stack(&mut console, &[], 2))
}

#[test]
fn the_first_stack_is_found(rt: HostRuntime) -> Result<(), Fail> {
    for (program, stack) in &FOUND {
        assert!(rt; found(rt.alloc(), program)? == *stack);
    }
    Ok(())
}

/// The lines of a list of events, and of searches, by docs/REFERENCE.md.
#[test]
fn lines_of_events_and_searches(rt: HostRuntime) {
    let faults = Faults {
        undefined_opcode: false,
        fetched_outside: false,
        stack_outside: true,
        ram_closed: true,
        transfer_met: false,
    };
    let place = CodePlace {
        address: 0x4106,
        bank: 3,
    };
    let line = fault_line(faults, CountedIn::Event, 5882, place);
    assert!(rt; line.as_slice() == b"FAULT F3 event 5882 pc 4106 bank 003\n".as_slice());
    let line = fault_line(faults, CountedIn::Frame, 6, place);
    assert!(rt; line.as_slice() == b"FAULT F3 frame 6 pc 4106 bank 003\n".as_slice());
    let line = no_fault_line(CountedIn::Event, 20_004_864);
    assert!(rt; line.as_slice() == b"NO FAULT events 20004864\n".as_slice());
    let line = no_fault_line(CountedIn::Frame, 600);
    assert!(rt; line.as_slice() == b"NO FAULT frames 600\n".as_slice());
}
