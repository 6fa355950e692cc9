//! The console.

ghost use Rattle.std.specs.Prelude.{◌≡◌, ◌<◌, ◌≤◌, ◌+◌, ◌%◌, nat_le, true, false, IfOk};
ghost use Rattle.gb_ops.specs.Accesses.{event_cycles};
ghost use Rattle.gb_ops.specs.Machine.{is_possible};
ghost use Rattle.gb_ops.specs.Play.{IsStart};
ghost use Rattle.gb_ops.specs.declared.machine.Event.TheVariants as event;
ghost use Rattle.gb_cpu.specs.Choice.{is_idle};
ghost use Rattle.gb_cpu.specs.Met.{HasMet};
ghost use Rattle.gb_console.specs.Console.{IsConsoleStep, IsReachable, at_power_up, machine_of, rom_of, shown};
ghost use Rattle.gb_console.specs.Frame.{Rests, IsReady, IsPassing};
ghost use Rattle.gb_cpu.specs.Below.gb_ppu.Picture.{frame_cycles};
ghost use Rattle.gb_verify.specs.Below.gb_abs_memory.Sound.{IsRom};

use crate::choice::{act, take};
use gb_cpu::step::{Cpu, Stepped};
use gb_cpu::{Bus, FRAME_CYCLES, HEIGHT, Keys, Memory, WIDTH};
use gb_ops::machine::Event;
use gb_ops::registers::Processor;
use gb_verify::{Rom, holds_bytes};
use std::alloc::{AllocError, Global};
use std::marker::Model;

/// A console that a cartridge runs in.
#[derive(Drop)]
pub struct Console<'a> {
    memory: Memory<'a>,
    cpu: Cpu,
    /// The M-cycles since power-up, modulo a frame's.
    cycles: u16,
}

impl<'a> Model for Console<'a> {
    ghost use Rattle.std.specs.Prelude.{◌≡◌, ◌<◌, false};
    ghost use Rattle.gb_cpu.specs.Below.gb_ppu.Picture.{frame_cycles};
    ghost use Rattle.gb_console.specs.Console.{ConsoleState, IsReachable};
    ghost use Rattle.gb_verify.specs.Below.gb_abs_memory.Sound.{IsRom};

    ghost Value = { ConsoleState };

    ghost view = { λ c. record { cpu = c.cpu; contents = c.memory; cycles = c.cycles } };

    ghost invariant = { λ c. (c.cycles < frame_cycles) × (c.memory.view.starting ≡ false) × IsReachable c.memory.view.rom (record { processor = c.cpu.processor; storage = c.memory.view.storage }) × IsRom c.memory.view.rom };
}

/// Counts M-cycles, modulo a frame's. Answers whether they reached or passed the frame's end.
#[inline(always)]
fn count(cycles: &mut u16, more: u8) -> bool
    requires { cycles.old < frame_cycles }
    ensures counted { cycles.new ≡ (cycles.old + more) % frame_cycles }
    ensures passed { result ≡ nat_le frame_cycles (cycles.old + more) }
{
    let sum = *cycles + u16::from(more);
    if sum < FRAME_CYCLES {
        *cycles = sum;
        false
    } else {
        *cycles = sum - FRAME_CYCLES;
        true
    }
}

/// A number, or 255 where it is larger.
fn byte_of(number: u16) -> u8
    ensures { result ≤ number }
{
    if number < 255 { number as u8 } else { 255 }
}

impl<'a> Console<'a> {
    /// A cartridge's console at power-up (Pan Docs: Power Up Sequence), or `AllocError` where there
    /// is no room. All room is made here; nothing of it grows later.
    #[tactic(auto, using(crate::proofs::Reaching::starts, crate::proofs::Reaching::start_reachable), unfolding(crate::specs::Console::at_power_up))]
    pub fn new(alloc: Global, rom: &Rom<'a>) -> Result<Console<'a>, AllocError>
        ensures exact { IfOk result (λ console. console ≡ at_power_up rom.now) }
        ensures start { IfOk result (λ console. IsStart rom.now (machine_of console)) }
    {
        // The console's type keeps that its cartridge is one.
        holds_bytes(rom);
        let memory = Memory::new(alloc, rom)?;
        let cpu = Cpu::at_power_up(rom.bytes());
        Ok(Console {
            memory,
            cpu,
            cycles: 0,
        })
    }

    /// A console in the same state, in room of its own: both go on alike with the same keys and seconds.
    ///
    /// # Errors
    ///
    /// AllocError where there is no room.
    pub fn try_clone(&self, alloc: Global) -> Result<Console<'a>, AllocError>
        ensures { IfOk result (λ console. console ≡ self.now) }
    {
        let memory = self.memory.try_clone(alloc)?;
        Ok(Console {
            memory,
            cpu: self.cpu,
            cycles: self.cycles,
        })
    }

    /// One event, and its M-cycles.
    fn take_event(&mut self, keys: Keys, seconds: u32) -> Stepped
        ensures step { IsConsoleStep self.old keys seconds result.event self.new }
        ensures cycles { result.cycles ≡ event_cycles (shown self.old) result.event }
        ensures possible { is_possible (shown self.old) result.event ≡ true }
        ensures met { HasMet (shown self.old) result.event result.met }
        ensures small { self.old.cycles < frame_cycles }
    {
        take(self.cpu, &mut self.memory, keys, seconds);
        let stepped = act(&mut self.cpu, &mut self.memory);
        count(&mut self.cycles, stepped.cycles);
        stepped
    }

    /// Whether an instruction comes next with nothing else, no interrupt is shared and these keys are held.
    #[inline(always)]
    pub fn is_ready(&mut self, keys: Keys) -> bool
        ensures same { self.new ≡ self.old }
        ensures ready { result ≡ true → IsReady self.old keys }
    {
        self.cpu.is_ready() && self.memory.pending() == 0 && self.memory.holds(keys)
    }

    /// An instruction that comes next. Answers whether it reached or passed the frame's end.
    #[inline(always)]
    pub fn run(&mut self, keys: Keys) -> bool
        requires { IsReady self.old keys }
        ensures { IsPassing self.old keys result self.new }
    {
        let cycles = self.cpu.run(&mut self.memory);
        count(&mut self.cycles, cycles)
    }

    /// Lets a waiting processor wait while nothing else changes, but not up to a frame's end. Answers how
    /// many steps that was, each a wait of one M-cycle.
    pub fn wait(&mut self, keys: Keys) -> u8
        requires { is_idle self.old.cpu ≡ false }
        ensures { Rests self.old keys result self.new }
    {
        if !self.cpu.is_waiting || !self.memory.holds(keys) || self.memory.pending() != 0 {
            return 0;
        }
        let waited = self.memory.wait(byte_of(FRAME_CYCLES - 1 - self.cycles));
        self.cycles += u16::from(waited);
        waited
    }

    /// One event as `step` answers it, with its M-cycles and what it met.
    pub fn advance(&mut self, keys: Keys, seconds: u32) -> Stepped
        ensures step { IsConsoleStep self.old keys seconds result.event self.new }
        ensures cycles { result.cycles ≡ event_cycles (shown self.old) result.event }
        ensures possible { is_possible (shown self.old) result.event ≡ true }
        ensures met { HasMet (shown self.old) result.event result.met }
        ensures waits { is_idle self.old.cpu ≡ true → result.event ≡ event.Wait 0 }
        ensures unchanged { is_idle self.old.cpu ≡ true → self.new ≡ self.old }
    {
        self.take_event(keys, seconds)
    }

    /// One event, after the keys that are held and the seconds that passed are taken: the dispatch
    /// of an interrupt, a wait of one M-cycle, or an instruction. A locked or stopped console takes
    /// nothing, and answers `Wait(0)`.
    pub fn step(&mut self, keys: Keys, seconds: u32) -> Event
        ensures step { IsConsoleStep self.old keys seconds result self.new }
        ensures waits { is_idle self.old.cpu ≡ true → result ≡ event.Wait 0 }
        ensures unchanged { is_idle self.old.cpu ≡ true → self.new ≡ self.old }
    {
        self.advance(keys, seconds).event
    }

    /// The M-cycles since power-up, modulo a frame's 17,556.
    pub fn cycles(&self) -> u16
        ensures value { result ≡ self.now.cycles }
        ensures small { result < frame_cycles }
    {
        self.cycles
    }

    /// The processor.
    #[inline(always)]
    pub fn processor(&self) -> Processor
        ensures { result ≡ self.now.cpu.processor }
    {
        self.cpu.processor
    }

    /// The memory.
    #[inline(always)]
    pub fn memory(&self) -> &Memory<'a>
        ensures { result.now ≡ self.now.contents }
    {
        &self.memory
    }

    /// The shades of each line, from the top on: 0 to 3, as each was drawn last.
    pub fn screen(&self) -> &[[u8; WIDTH]; HEIGHT]
        ensures { result.now ≡ self.now.contents.screen }
    {
        self.memory.screen()
    }

    /// The address of the next instruction.
    pub fn pc(&self) -> u16
        ensures address { result ≡ self.now.cpu.processor.pc }
    {
        self.cpu.processor.pc
    }

    /// States of a console that no transfer is about to start between events.
    pub fn rests(&self)
        ensures { self.now.contents.view.starting ≡ false }
    {
        let _ = &self.memory;
    }

    /// States of a console that its cartridge holds bytes, of a number of banks that a cartridge may have.
    pub fn holds_cartridge(&self)
        ensures { IsRom (rom_of self.now) }
    {
        let _ = &self.memory;
    }

    /// The law of every console, whatever was called before: some start and some list of events lead to
    /// its state, whatever region is declared.
    pub fn reached(&self)
        ensures { IsReachable (rom_of self.now) (machine_of self.now) }
    {
        let _ = &self.memory;
    }
}
