//! Whole programs on the console, by steps and frames. An example is a list of steps, which one function plays.

use bitflags::Flags;
use gb_ops::machine::Event;
use gb_samples::cartridges::{PLAIN, put, small};
use gb_samples::programs::{LOCKS_AT_A, WAITS};
use gb_text::Rom;
use gb_timer::irqs::Keys;
use gb_witness::{Console, Ending};
use std::alloc::Global;
use std::process::Abort;
use std::test::Fail;

/// What is done with a console, with what comes of it, or what it shows.
#[derive(Clone, Copy)]
enum ConsoleStep {
    /// A frame with a key or none, and how it ends.
    Frame(Option<Keys>, Ending),
    /// A frame with no key, after a second.
    SecondFrame(Ending),
    /// So many steps with no key.
    Run(u8),
    /// A step with no key, and its event.
    Event(Event),
    /// A step with no key that executes an instruction.
    Executes,
    /// A step with no key, after a second.
    SecondEvent(Event),
    /// So many steps with a key or none, in which the joypad's interrupt is dispatched so often.
    Dispatches(Option<Keys>, u16, u16),
    Pc(u16),
    /// The M-cycles since power-up, modulo a frame's.
    Cycles(u16),
    /// PC stands from one address to another.
    PcIn(u16, u16),
    /// The shade of a line's pixel.
    Shade(usize, usize, u8),
    Dark,
}

fn held(key: Option<Keys>) -> Keys {
    match key {
        Some(keys) => keys,
        None => Keys::empty(),
    }
}

fn run(console: &mut Console<'_>, steps: u8) {
    for _ in 0..steps {
        console.step(Keys::empty(), 0);
    }
}

/// How often the joypad's interrupt is dispatched in so many steps.
fn dispatches(console: &mut Console<'_>, keys: Keys, steps: u16) -> u16 {
    let mut count = 0u16;
    for _ in 0..steps {
        if console.step(keys, 0) == Event::Irq(4) {
            count = count.wrapping_add(1);
        }
    }
    count
}

fn is_shade(console: &Console<'_>, line: usize, column: usize, shade: u8) -> bool {
    line < 144 && column < 160 && console.screen()[line][column] == shade
}

fn is_dark(console: &Console<'_>) -> bool {
    for line in console.screen() {
        if *line != [0; 160] {
            return false;
        }
    }
    true
}

/// Does a step, and answers whether the console does what it says.
fn agrees(console: &mut Console<'_>, step: ConsoleStep) -> bool {
    match step {
        ConsoleStep::Frame(key, ending) => console.frame(held(key), 0) == ending,
        ConsoleStep::SecondFrame(ending) => console.frame(Keys::empty(), 1) == ending,
        ConsoleStep::Run(steps) => {
            run(console, steps);
            true
        }
        ConsoleStep::Event(event) => console.step(Keys::empty(), 0) == event,
        ConsoleStep::Executes => matches!(console.step(Keys::empty(), 0), Event::Run { .. }),
        ConsoleStep::SecondEvent(event) => console.step(Keys::empty(), 1) == event,
        ConsoleStep::Dispatches(key, steps, count) => dispatches(console, held(key), steps)
            == count,
        ConsoleStep::Pc(pc) => console.pc() == pc,
        ConsoleStep::Cycles(cycles) => console.cycles() == cycles,
        ConsoleStep::PcIn(first, last) => first <= console.pc() && console.pc() <= last,
        ConsoleStep::Shade(line, column, shade) => is_shade(console, line, column, shade),
        ConsoleStep::Dark => is_dark(console),
    }
}

fn play(rt: &impl Abort, console: &mut Console<'_>, steps: &[ConsoleStep]) {
    for (i, step) in steps.iter().enumerate() {
        assert!(rt; agrees(console, *step), "step {i}");
    }
}

/// Plays steps on a console at power-up, with a cartridge of this program and RETI at an address.
fn play_program(
    rt: &impl Abort,
    alloc: Global,
    program: &[u8],
    handler: usize,
    steps: &[ConsoleStep],
) -> Result<(), Fail> {
    let mut bytes = small(PLAIN, program);
    put(&mut bytes, handler, &[0xD9]);
    let rom = Rom::parse(&bytes)?;
    let mut console = Console::new(alloc, &rom)?;
    play(rt, &mut console, steps);
    Ok(())
}

const VBLANK: usize = 0x40;

const JOYPAD: usize = 0x60;

const STAYS: &[ConsoleStep] = &[
    ConsoleStep::Pc(0x0100),
    ConsoleStep::Run(6),
    ConsoleStep::Pc(0x0158),
    ConsoleStep::Event(Event::HaltStay),
    ConsoleStep::Event(Event::Irq(0)),
    ConsoleStep::Pc(0x0040),
    ConsoleStep::Run(1),
    ConsoleStep::Pc(0x0158),
];

/// HALT behind EI stays, and RETI leads back to it: the word that the dispatch pushed is its own address.
#[test]
fn halt_behind_ei_stays_and_is_left_by_the_interrupt(rt: HostRuntime) -> Result<(), Fail> {
    play_program(&rt, rt.alloc(), WAITS, VBLANK, STAYS)
}

/// LD A,01; LDH (FF),A; HALT; NOP; JR to itself.
const HALTS_WITH_INTERRUPTS_OFF: &[u8] = &[0x3E, 0x01, 0xE0, 0xFF, 0x76, 0x00, 0x18, 0xFE];

const READS_TWICE: &[ConsoleStep] = &[
    ConsoleStep::Run(4),
    ConsoleStep::Event(Event::HaltBug),
    ConsoleStep::Pc(0x0155),
    ConsoleStep::Executes,
    ConsoleStep::Pc(0x0155),
    ConsoleStep::Executes,
    ConsoleStep::Pc(0x0156),
];

/// An interrupt is requested while IME is off: the NOP behind HALT is read twice.
#[test]
fn a_nop_behind_halt_is_read_twice(rt: HostRuntime) -> Result<(), Fail> {
    play_program(
        &rt,
        rt.alloc(),
        HALTS_WITH_INTERRUPTS_OFF,
        VBLANK,
        READS_TWICE,
    )
}

const LOCKS: &[ConsoleStep] = &[
    ConsoleStep::Frame(None, Ending::Whole),
    ConsoleStep::Frame(None, Ending::Whole),
    ConsoleStep::Frame(Some(Keys::A), Ending::Locked),
    ConsoleStep::Pc(0x015A),
    ConsoleStep::SecondEvent(Event::Wait(0)),
    ConsoleStep::SecondFrame(Ending::Locked),
];

#[test]
fn a_key_leads_to_an_undefined_opcode(rt: HostRuntime) -> Result<(), Fail> {
    play_program(&rt, rt.alloc(), LOCKS_AT_A, VBLANK, LOCKS)
}

/// LD SP,E000; LD A,10; LDH (FF),A; LDH (00),A; EI; JR to itself.
const ENABLES_KEYS: &[u8] = &[
    0x31, 0x00, 0xE0, 0x3E, 0x10, 0xE0, 0xFF, 0xE0, 0x00, 0xFB, 0x18, 0xFE,
];

const HELD: &[ConsoleStep] = &[
    ConsoleStep::Dispatches(None, 2_000, 0),
    ConsoleStep::Dispatches(Some(Keys::A), 2_000, 1),
    ConsoleStep::Dispatches(Some(Keys::A), 2_000, 0),
    ConsoleStep::Dispatches(None, 2_000, 0),
    ConsoleStep::Dispatches(Some(Keys::A), 2_000, 1),
];

/// The interrupt's dispatch takes the request back, and a key that is held makes no other.
#[test]
fn a_held_key_interrupts_once(rt: HostRuntime) -> Result<(), Fail> {
    play_program(&rt, rt.alloc(), ENABLES_KEYS, JOYPAD, HELD)
}

/// LD A,10; LDH (00),A; then bit 4 of IF is asked for and taken back, and from then on a request leads to an undefined
/// opcode at 0164.
const ASKS_FOR_KEYS: &[u8] = &[
    0x3E, 0x10, 0xE0, 0x00, 0xF0, 0x0F, 0xE6, 0x10, 0x28, 0xFA, 0xAF, 0xE0, 0x0F, 0xF0, 0x0F, 0xE6,
    0x10, 0x28, 0xFA, 0x00, 0xD3,
];

const ASKED: &[ConsoleStep] = &[
    ConsoleStep::Frame(None, Ending::Whole),
    ConsoleStep::PcIn(0x0000, 0x0159),
    ConsoleStep::Frame(Some(Keys::A), Ending::Whole),
    ConsoleStep::PcIn(0x015D, 0xFFFF),
    ConsoleStep::Frame(Some(Keys::A), Ending::Whole),
    ConsoleStep::PcIn(0x015D, 0xFFFF),
    ConsoleStep::Frame(Some(Keys::A), Ending::Whole),
    ConsoleStep::PcIn(0x015D, 0xFFFF),
    ConsoleStep::Frame(None, Ending::Whole),
    ConsoleStep::Frame(Some(Keys::A), Ending::Locked),
    ConsoleStep::Pc(0x0164),
];

#[test]
fn a_held_key_leaves_if_clear(rt: HostRuntime) -> Result<(), Fail> {
    play_program(&rt, rt.alloc(), ASKS_FOR_KEYS, JOYPAD, ASKED)
}

const STOPS: &[ConsoleStep] = &[
    ConsoleStep::Frame(None, Ending::Stopped),
    ConsoleStep::Pc(0x0150),
];

#[test]
fn stop_ends_the_run(rt: HostRuntime) -> Result<(), Fail> {
    play_program(&rt, rt.alloc(), &[0x10, 0x00], VBLANK, STOPS)
}

/// BGP becomes FF, so that each colour of the background is black; then HALT with nothing enabled.
const BLACKENS: &[u8] = &[0x3E, 0xFF, 0xE0, 0x47, 0x76, 0x00];

const DRAWN: &[ConsoleStep] = &[
    ConsoleStep::Shade(143, 159, 0),
    ConsoleStep::Run(5),
    ConsoleStep::Event(Event::Wait(1)),
    ConsoleStep::Frame(None, Ending::Whole),
    ConsoleStep::Shade(0, 0, 3),
    ConsoleStep::Shade(143, 159, 3),
];

#[test]
fn a_frame_draws_the_screen(rt: HostRuntime) -> Result<(), Fail> {
    play_program(&rt, rt.alloc(), BLACKENS, VBLANK, DRAWN)
}

/// NOP takes one M-cycle, and the jump four.
const POWER_UP: &[ConsoleStep] = &[
    ConsoleStep::Pc(0x0100),
    ConsoleStep::Cycles(0),
    ConsoleStep::Dark,
    ConsoleStep::Run(2),
    ConsoleStep::Pc(0x0150),
    ConsoleStep::Cycles(5),
];

/// With ample memory the console at power-up; where an allocation is refused, nothing else.
#[test]
fn powers_up_or_wants_memory(rt: HostRuntime) -> Result<(), Fail> {
    let bytes = small(PLAIN, &[]);
    let rom = Rom::parse(&bytes)?;
    if let Ok(mut console) = Console::new(rt.alloc(), &rom) {
        play(&rt, &mut console, POWER_UP);
    }
    Ok(())
}

/// From HALT with nothing enabled: a frame draws the screen.
const BLACKENED: &[ConsoleStep] = &[
    ConsoleStep::Pc(0x0155),
    ConsoleStep::Frame(None, Ending::Whole),
    ConsoleStep::Shade(0, 0, 3),
    ConsoleStep::Pc(0x0155),
];

/// Both go on alike, each by itself: what one draws, the other doesn't show before it has drawn it too.
#[test]
fn a_cloned_console_goes_on_by_itself(rt: HostRuntime) -> Result<(), Fail> {
    let bytes = small(PLAIN, BLACKENS);
    let rom = Rom::parse(&bytes)?;
    let mut console = Console::new(rt.alloc(), &rom)?;
    run(&mut console, 5);
    let mut clone = console.try_clone(rt.alloc())?;
    play(&rt, &mut console, BLACKENED);
    assert!(rt; is_shade(&clone, 0, 0, 0));
    play(&rt, &mut clone, BLACKENED);
    assert!(rt; clone.cycles() == console.cycles());
    Ok(())
}
