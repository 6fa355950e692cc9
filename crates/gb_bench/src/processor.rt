//! The processor on the console's memory: a loop of arithmetic.

use crate::report;
use gb_cpu::Memory;
use gb_cpu::step::Cpu;
use gb_verify::Rom;
use std::io;
use std::rt::Clock;
use std::time::Instant;

/// The instructions that are run.
const STEPS: u32 = 1_000_000;

/// ADD A,B; INC B; XOR C; INC C; JR back to the first, at 0150.
pub fn cartridge() -> [u8; 0x8000] {
    let mut rom = [0; 0x8000];
    rom[0x150] = 0x80;
    rom[0x151] = 0x04;
    rom[0x152] = 0xA9;
    rom[0x153] = 0x0C;
    rom[0x154] = 0x18;
    rom[0x155] = 0xFA;
    rom[0x14D] = 0xE7;
    rom
}

/// Runs the steps, and answers their M-cycles.
fn run_steps<R: Eprint + Clock>(rt: &R, memory: &mut Memory<'_>, mut cpu: Cpu) -> io::Result<u64> {
    let since = Instant::now(rt)?;
    let mut cycles = 0u64;
    for _ in 0..STEPS {
        cycles = cycles.wrapping_add(u64::from(cpu.step(memory).cycles));
    }
    report(rt, "1,000,000 steps of the processor", &since)?;
    Ok(cycles)
}

/// Runs the steps on the console's memory, and answers their M-cycles.
pub fn run<R: Eprint + Clock + AllocGlobal>(rt: &R) -> io::Result<u64> {
    let bytes = cartridge();
    let Ok(rom) = Rom::parse(&bytes) else {
        return Ok(0);
    };
    let mut memory = Memory::new(rt.alloc(), &rom)?;
    let mut cpu = Cpu::at_power_up(&bytes);
    cpu.processor.pc = 0x150;
    let cycles = run_steps(rt, &mut memory, cpu);
    drop(memory);
    cycles
}
