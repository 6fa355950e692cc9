//! Single steps of the processor on the console's memory. An example is a list of steps, which one function plays.

use gb_bus::{Bus, Memory};
use gb_cpu::step::{Cpu, Stepped};
use gb_effects::flags::{flags_byte, flags_of};
use gb_ops::machine::Event;
use gb_ops::registers::Ime;
use gb_samples::cartridges::{PLAIN, small};
use gb_samples::states::processor;
use gb_text::Rom;
use std::alloc::Global;
use std::process::Abort;
use std::test::Fail;

/// A processor at C000, where these bytes are put; IF is 01, and so is IE where `enabled` is set.
fn start<B: Bus>(bus: &mut B, bytes: &[u8], enabled: bool) -> Cpu {
    let mut address = 0xC000u16;
    for byte in bytes {
        bus.write(address, *byte);
        address = address.wrapping_add(1);
    }
    bus.write(0xFF0F, 0x01);
    bus.write(0xFFFF, u8::from(enabled));
    Cpu {
        processor: processor(0xC000, 0xFFFE),
        is_waiting: false,
    }
}

/// What is done with a processor, with what comes of it, or what it shows.
#[derive(Clone, Copy)]
enum ProcessorStep {
    /// An instruction, whatever its event.
    Run,
    Event(Event),
    /// An event, and its M-cycles.
    Takes(Event, u8),
    /// IE becomes 01.
    Enable,
    B(u8),
    Pc(u16),
    Ime(Ime),
    IsLocked(bool),
    IsWaiting(bool),
}

fn stepped(cpu: &mut Cpu, memory: &mut Memory<'_>) -> Stepped {
    cpu.step(memory)
}

/// Does a step, and answers whether the processor does what it says.
fn agrees(cpu: &mut Cpu, memory: &mut Memory<'_>, step: ProcessorStep) -> bool {
    match step {
        ProcessorStep::Run => {
            stepped(cpu, memory);
        }
        ProcessorStep::Enable => memory.write(0xFFFF, 0x01),
        ProcessorStep::Event(event) => return stepped(cpu, memory).event == event,
        ProcessorStep::Takes(event, cycles) => {
            let stepped = stepped(cpu, memory);
            return stepped.event == event && stepped.cycles == cycles;
        }
        ProcessorStep::B(b) => return cpu.processor.registers.b == b,
        ProcessorStep::Pc(pc) => return cpu.processor.pc == pc,
        ProcessorStep::Ime(ime) => return cpu.processor.ime == ime,
        ProcessorStep::IsLocked(is_locked) => return cpu.processor.locked == is_locked,
        ProcessorStep::IsWaiting(is_waiting) => return cpu.is_waiting == is_waiting,
    }
    true
}

/// Plays steps from the start of these bytes.
fn play(
    rt: &impl Abort,
    alloc: Global,
    bytes: &[u8],
    enabled: bool,
    steps: &[ProcessorStep],
) -> Result<(), Fail> {
    let cartridge = small(PLAIN, &[]);
    let rom = Rom::parse(&cartridge)?;
    let mut memory = Memory::new(alloc, &rom)?;
    let mut cpu = start(&mut memory, bytes, enabled);
    for (i, step) in steps.iter().enumerate() {
        assert!(rt;
            agrees(&mut cpu, &mut memory, *step),
            "step {i} of {bytes:?}"
        );
    }
    Ok(())
}

/// An instruction's bytes; A, F and SP before; A, F, SP and the M-cycles.
type Row<'a> = (&'a [u8], (u8, u8, u16), (u8, u8, u16, u8));

const ROWS: [Row<'static>; 6] = [
    (&[0xE8, 0x08], (0x00, 0x00, 0xFFF8), (0x00, 0x30, 0x0000, 4)),
    (&[0x27], (0x0F, 0x60, 0xFFFE), (0x09, 0x40, 0xFFFE, 1)),
    (&[0xCB, 0x37], (0xF1, 0xF0, 0xFFFE), (0x1F, 0x00, 0xFFFE, 2)),
    (
        &[0xF1, 0xFF, 0x12],
        (0x00, 0x00, 0xC001),
        (0x12, 0xF0, 0xC003, 3),
    ),
    (&[0xC6, 0x38], (0x45, 0x00, 0xFFFE), (0x7D, 0x00, 0xFFFE, 2)),
    (&[0x27], (0x7D, 0x00, 0xFFFE), (0x83, 0x00, 0xFFFE, 1)),
];

/// Whether an instruction leaves A, F and SP and takes so many M-cycles.
fn computes(memory: &mut Memory<'_>, row: &Row<'_>) -> bool {
    let (bytes, (a, f, sp), (a_after, f_after, sp_after, cycles)) = *row;
    let mut cpu = start(memory, bytes, false);
    cpu.processor.registers.a = a;
    cpu.processor.flags = flags_of(f);
    cpu.processor.sp = sp;
    let taken = stepped(&mut cpu, memory).cycles;
    let processor = cpu.processor;
    processor.registers.a == a_after
        && flags_byte(processor.flags) == f_after
        && processor.sp == sp_after
        && taken == cycles
}

#[test]
fn single_instructions(rt: HostRuntime) -> Result<(), Fail> {
    let bytes = small(PLAIN, &[]);
    let rom = Rom::parse(&bytes)?;
    for row in &ROWS {
        let mut memory = Memory::new(rt.alloc(), &rom)?;
        assert!(rt; computes(&mut memory, row), "{:?}", row.0);
    }
    Ok(())
}

const READS_TWICE: &[ProcessorStep] = &[
    ProcessorStep::Event(Event::HaltBug),
    ProcessorStep::Run,
    ProcessorStep::B(6),
    ProcessorStep::Pc(0xC002),
    ProcessorStep::Run,
    ProcessorStep::B(7),
    ProcessorStep::Pc(0xC003),
];

/// HALT with interrupts off and one that is enabled and requested: the byte behind it is read twice.
#[test]
fn reads_twice_behind_halt(rt: HostRuntime) -> Result<(), Fail> {
    play(&rt, rt.alloc(), &[0x76, 0x06, 0x04], true, READS_TWICE)
}

const TURNS_ON: &[ProcessorStep] = &[
    ProcessorStep::Run,
    ProcessorStep::Ime(Ime::Pending),
    ProcessorStep::Run,
    ProcessorStep::Ime(Ime::On),
];

const STAYS_OFF: &[ProcessorStep] = &[
    ProcessorStep::Run,
    ProcessorStep::Ime(Ime::Pending),
    ProcessorStep::Run,
    ProcessorStep::Ime(Ime::Off),
];

/// EI twice turns interrupts on, and DI behind EI leaves them off.
#[test]
fn enables_interrupts_one_later(rt: HostRuntime) -> Result<(), Fail> {
    play(&rt, rt.alloc(), &[0xFB, 0xFB], false, TURNS_ON)?;
    play(&rt, rt.alloc(), &[0xFB, 0xF3], false, STAYS_OFF)
}

const LOCKED: &[ProcessorStep] = &[
    ProcessorStep::Run,
    ProcessorStep::IsLocked(true),
    ProcessorStep::Pc(0xC000),
    ProcessorStep::Takes(Event::Wait(0), 0),
];

#[test]
fn an_undefined_opcode_locks(rt: HostRuntime) -> Result<(), Fail> {
    play(&rt, rt.alloc(), &[0xD3], false, LOCKED)
}

const WAITS: &[ProcessorStep] = &[
    ProcessorStep::Run,
    ProcessorStep::IsWaiting(true),
    ProcessorStep::Event(Event::Wait(1)),
    ProcessorStep::Enable,
    ProcessorStep::Run,
    ProcessorStep::IsWaiting(false),
    ProcessorStep::Event(Event::HaltStay),
    ProcessorStep::Ime(Ime::On),
    ProcessorStep::Pc(0xC002),
];

/// HALT waits until an interrupt is enabled and requested. Behind EI it stays, and turns interrupts on.
#[test]
fn waits_and_stays(rt: HostRuntime) -> Result<(), Fail> {
    play(&rt, rt.alloc(), &[0x76, 0xFB, 0x76], false, WAITS)
}

const FREE: &[ProcessorStep] = &[
    ProcessorStep::Run,
    ProcessorStep::Event(Event::Run {
        fetch: [0xFF, 0x00, 0x00],
        reads: [0x00, 0x00],
    }),
    ProcessorStep::Pc(0x0038),
];

/// LDH (46),A starts a transfer, and the next instruction's byte is then FF, the event's own.
#[test]
fn reads_free_bytes_in_transfers(rt: HostRuntime) -> Result<(), Fail> {
    play(&rt, rt.alloc(), &[0xE0, 0x46, 0x00], false, FREE)
}
