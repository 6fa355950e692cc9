//! What the console holds between two events: states that a cartridge reaches.

ghost use Rattle.std.specs.Prelude.{◌<◌};

use crate::random::Random;
use bitflags::Flags;
use gb_cpu::{Bus, Cpu, Memory};
use gb_header::Rom;
use gb_mbc::{Controller, Mapper};
use gb_ops::machine::Write;
use gb_ops::registers::{Ime, Processor};
use gb_printed::Console;
use gb_timer::irqs::Keys;
use std::alloc::Global;
use std::io;

/// About how many states of an example are taken at random in each of its two runs.
pub const SEEN: usize = 48;

/// What a console holds between two events.
#[derive(Drop)]
pub struct ReachedState<'a> {
    /// The bank shown at PC, of RAM 0.
    pub bank: u16,
    pub processor: Processor,
    pub memory: Memory<'a>,
    /// The memory's own one doesn't tell its registers. This one got the same stores.
    pub controller: Controller,
}

/// The bank shown at an address, of RAM 0.
fn bank_at(memory: &Memory<'_>, address: u16) -> u16 {
    if address < 0x8000 {
        memory.shown_bank(address)
    } else {
        0
    }
}

/// Stores in a controller what an event stores; outside its windows that changes nothing.
fn store_in(controller: &mut Controller, write: Write) {
    match write {
        Write::Nothing => {}
        Write::Byte(address, byte) => controller.write(address, byte),
        Write::Word(address, word) => {
            let [high, low] = word.to_be_bytes();
            controller.write(address, low);
            controller.write(address.wrapping_add(1), high);
        }
        Write::Push(sp, word) => {
            let [high, low] = word.to_be_bytes();
            controller.write(sp.wrapping_sub(1), high);
            controller.write(sp.wrapping_sub(2), low);
        }
    }
}

/// Gives RAM any bytes: at power-up the console has zeros, but the rules leave them open.
fn scatter(random: &mut Random, memory: &mut Memory<'_>) {
    for address in 0xC000..=0xDFFFu16 {
        memory.write(address, random.byte());
    }
    for address in 0xFF80..=0xFFFEu16 {
        memory.write(address, random.byte());
    }
}

/// How many states of a run stand at one address with the same flags before others are taken at random only. So code that runs
/// once is met too, and both ways of a branch are.
const FEW: usize = 2;

/// The states that are taken, and the run from which they come.
#[derive(Drop)]
struct Run<'a> {
    states: Vec<ReachedState<'a>>,
    /// The number of its first state.
    first: usize,
    /// A controller that gets its stores.
    controller: Controller,
    /// About how many of its states are taken at random.
    count: usize,
}

impl<'a> Run<'a> {
    fn new(alloc: Global, rom: &Rom<'a>, count: usize) -> Run<'a> {
        Run {
            states: Vec::new(alloc),
            first: 0,
            controller: Controller::of(rom),
            count,
        }
    }

    /// Another run begins.
    fn begin_anew(&mut self, rom: &Rom<'a>) {
        self.first = self.states.len();
        self.controller = Controller::of(rom);
    }

    /// How far apart states are that are taken at random.
    fn apart(&self) -> usize
        ensures { 0 < result }
    {
        self.count.saturating_mul(8).max(1)
    }

    /// How many events it has at most.
    fn length(&self) -> usize {
        self.count.saturating_mul(self.apart())
    }

    /// How many states it has.
    fn taken(&self) -> usize {
        self.states.len().saturating_sub(self.first)
    }

    /// Whether few of its states stand at the same address with the same flags.
    fn is_rare(&self, bank: u16, processor: &Processor) -> bool {
        let mut met = 0usize;
        for state in self.states.iter().skip(self.first) {
            let is_there = state.processor.pc == processor.pc && state.bank == bank;
            if is_there && state.processor.flags == processor.flags {
                met = met.wrapping_add(1);
            }
            if met == FEW {
                return false;
            }
        }
        true
    }

    /// Takes the state between two events where it is rare, or at random. Answers whether it is taken: none is while an OAM
    /// transfer closes the memory.
    fn take(
        &mut self,
        alloc: Global,
        random: &mut Random,
        processor: Processor,
        memory: &Memory<'a>,
    ) -> io::Result<bool> {
        let bank = bank_at(memory, processor.pc);
        let is_full = self.taken() >= self.count.saturating_mul(2);
        if is_full || memory.transfer_left() > 0 {
            return Ok(false);
        }
        if !self.is_rare(bank, &processor) && random.below(self.apart()) > 0 {
            return Ok(false);
        }
        self.states.push(ReachedState {
            bank,
            processor,
            memory: memory.try_clone(alloc)?,
            controller: self.controller.copied(),
        })?;
        Ok(true)
    }

    /// The run of a cartridge's console with random keys, others after each state that is taken.
    fn play_console(
        &mut self,
        alloc: Global,
        random: &mut Random,
        rom: &Rom<'a>,
    ) -> io::Result<()> {
        let mut console = Console::new(alloc, rom)?;
        let mut keys = Keys::from_bits_retain(random.byte());
        for _ in 0..self.length() {
            if self.take(alloc, random, console.processor(), console.memory())? {
                keys = Keys::from_bits_retain(random.byte());
            }
            let is_open = console.memory().transfer_left() == 0;
            let stepped = console.advance(keys, 0);
            if is_open {
                store_in(&mut self.controller, stepped.met.write);
            }
        }
        Ok(())
    }

    /// The run of a processor whose RAM holds any bytes at power-up, up to the first interrupt.
    fn play_processor(
        &mut self,
        alloc: Global,
        random: &mut Random,
        rom: &Rom<'a>,
    ) -> io::Result<()> {
        let mut memory = Memory::new(alloc, rom)?;
        scatter(random, &mut memory);
        let mut cpu = Cpu::at_power_up(rom.bytes());
        for _ in 0..self.length() {
            if self.take(alloc, random, cpu.processor, &memory)? {
                memory.set_keys(Keys::from_bits_retain(random.byte()));
            }
            if cpu.processor.ime == Ime::On && memory.pending() != 0 {
                break;
            }
            let is_open = memory.transfer_left() == 0;
            let stepped = cpu.step(&mut memory);
            if is_open {
                store_in(&mut self.controller, stepped.met.write);
            }
        }
        Ok(())
    }

    fn into_states(self) -> Vec<ReachedState<'a>> {
        let Run { states, .. } = self;
        states
    }
}

/// A number that the vectors and the code behind the header give.
fn seed_of(rom: &[u8]) -> u64 {
    let mut seed = 0u64;
    for byte in rom.iter().take(0x200) {
        seed = seed.wrapping_mul(31).wrapping_add(u64::from(*byte));
    }
    seed
}

/// States that a cartridge reaches with random keys, in a run of its console and in one where RAM held any bytes at power-up: about so
/// many at random in each, and at most twice as many with the rare ones. The cartridge's own bytes decide the keys, so that the
/// storms around it stay as they are.
pub fn reached_states<'a>(
    alloc: Global,
    rom: &Rom<'a>,
    count: usize,
) -> io::Result<Vec<ReachedState<'a>>> {
    let mut random = Random::new(seed_of(rom.bytes()));
    let mut run = Run::new(alloc, rom, count);
    run.play_console(alloc, &mut random, rom)?;
    run.begin_anew(rom);
    run.play_processor(alloc, &mut random, rom)?;
    Ok(run.into_states())
}
