//! How often the functions serve that are there for speed alone. Their contracts let them do nothing, so a count is what shows
//! one that does nothing.

use bitflags::Flags;
use gb_cpu::{Cpu, Keys, Memory};
use gb_devices::Devices;
use gb_ppu::{Ppu, Timer};
use gb_verify::Rom;
use std::io;

/// How often each is called.
const CALLS: u16 = 1_000;

/// So many M-cycles pass unseen, where they are owed one by one at power-up: up to mode 3 of line 0, which begins with the
/// twentieth.
fn owed() -> u16 {
    let mut devices = Devices::new();
    let mut owed: u16 = 0;
    for _ in 0..CALLS {
        if devices.owe(1) {
            owed = owed.saturating_add(1);
        }
    }
    owed
}

/// How often devices settle that have waited from mode 3 into the next line, asked before and after.
fn settled() -> u16 {
    let mut ppu = Ppu::new();
    ppu.advance(21);
    let mut devices = Devices::of(Timer::new(), ppu);
    let before = devices.settle();
    devices.wait(255);
    let after = devices.settle();
    u16::from(before).saturating_add(u16::from(after))
}

/// A timer that counts each fourth M-cycle, from 00 (TAC is 05).
fn fast_timer() -> Timer {
    let mut timer = Timer::new();
    timer.set_tac(0x05);
    timer
}

/// In how many steps of a loop an instruction comes next with nothing else, and how often of two keys the held one is met.
fn ready_and_held(memory: &mut Memory<'_>, cpu: &mut Cpu) -> (u16, u16) {
    memory.set_keys(Keys::A);
    let held = u16::from(memory.holds(Keys::A)).saturating_add(u16::from(memory.holds(Keys::B)));
    let mut ready: u16 = 0;
    for _ in 0..CALLS {
        ready = ready.saturating_add(u16::from(cpu.is_ready()));
        cpu.step(memory);
    }
    (ready, held)
}

/// Prints the counts for a cartridge that loops at 0150.
#[tactic(auto, unfolding(gb_bus::specs::PowerUp::at_power_up))]
pub fn count<R: Print + AllocGlobal>(rt: &R, bytes: &[u8]) -> io::Result<()> {
    let Ok(rom) = Rom::parse(bytes) else {
        return println!(rt; "no cartridge");
    };
    let timer = fast_timer().quiet();
    let (quiet, silent) = (Ppu::new().quiet(), Ppu::new().silent());
    println!(rt;
        "quiet for {timer} M-cycles: the timer; for {quiet}: the picture; silent for {silent}"
    )?;
    let (owed, settled) = (owed(), settled());
    println!(rt; "owed: {owed} M-cycles of {CALLS}; settled: {settled} times of 2")?;
    let mut memory = Memory::new(rt.alloc(), &rom)?;
    let waited = memory.wait(255);
    let mut cpu = Cpu::at_power_up(bytes);
    cpu.processor.pc = 0x150;
    let (ready, held) = ready_and_held(&mut memory, &mut cpu);
    drop(memory);
    println!(rt;
        "waited: {waited} M-cycles; ready: {ready} times of {CALLS}; held: {held} keys of 2"
    )
}
