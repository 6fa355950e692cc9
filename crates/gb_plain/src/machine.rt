//! A machine whose events say what hardware gives.
//!
//! The processor steps over plain memory, whose free reads give the event's bytes and whose pending interrupts are the
//! event's. It makes an event of its own; `proofs/Running.antt` says that what that leads to is the machine's next for the
//! very event that was asked.

ghost use Rattle.std.specs.Prelude.{◌≡◌, ◌%◌, ◌&&◌, drop, slice_index, true, false};
ghost use Rattle.gb_ops.specs.Machine as Machine;
ghost use Rattle.gb_ops.specs.Machine.{is_possible, is_bytes};
ghost use Rattle.gb_ops.specs.Memory as Memory;
ghost use Rattle.gb_ops.specs.Play as Play;
ghost use Rattle.gb_ops.specs.Accesses.{event_cycles};
ghost use Rattle.gb_cpu.specs.Step.{state, IsDispatchable};
ghost use Rattle.gb_plain.specs.Handed.{left, ordered, IsInOrder, IsStepWith, IsEvent};
ghost use Rattle.gb_plain.specs.Shown.{bus, shown, resting};

use crate::fetch::fetched;
use crate::memory::{byte_at, is_free, place_of, write};
use crate::possible::{is_possible, is_running};
use crate::state::MachineState;
use gb_cpu::Bus;
use gb_cpu::step::{Cpu, Stepped};
use gb_effects::advance::{length_of, second_address, third_address};
use gb_ops::machine::{Event, ReadSource};

/// The opcode of HALT.
const HALT: u8 = 0x76;

/// What an event hands in: the bytes that free reads give, in order, and the interrupts that are pending.
#[derive(Clone, Copy)]
struct Handed {
    free: [u8; 5],
    /// How many of them were taken.
    taken: usize,
    pending: u8,
}

/// A machine over plain memory: a machine state with its cartridge.
#[derive(Drop)]
pub struct PlainMachine {
    pub state: MachineState,
    /// A transfer starts as the event ends.
    is_starting: bool,
    handed: Handed,
}

impl Bus for PlainMachine {
    ghost use Rattle.std.specs.Prelude.{◌%◌, bit_and};
    ghost use Rattle.gb_plain.specs.Handed.{view_of, Takes};

    ghost shows = { view_of };

    ghost does = { Takes };

    ghost shared = { λ m. bit_and m.handed.pending (m.state.machine.storage.ie % 32) };

    #[tactic(auto, using(crate::proofs::Starting::free_is, crate::proofs::Starting::byte_is), unfolding(gb_ops::specs::Machine::read_at))]
    fn read(&mut self, address: u16) -> u8 {
        if is_free(&self.state, address) {
            self.take_free()
        } else {
            byte_at(&self.state, address)
        }
    }

    fn write(&mut self, address: u16, value: u8) {
        self.is_starting = write(&mut self.state, self.is_starting, address, value);
    }

    #[tactic(auto, using(crate::proofs::Starting::place_is, crate::proofs::Starting::sized_is))]
    fn place(&self, address: u16) -> ReadSource {
        self.state.sizes();
        place_of(&self.state, address)
    }

    #[tactic(auto, using(crate::proofs::Pending::some_bits))]
    fn pending(&mut self) -> u8 {
        self.handed.pending & (self.state.ie() % 32)
    }

    fn acknowledge(&mut self, _i: u8) {}

    #[tactic(auto, unfolding(gb_ops::specs::Memory::passed))]
    fn pass(&mut self, cycles: u8) {
        self.state.pass(self.is_starting, cycles);
        self.is_starting = false;
    }
}

impl PlainMachine {
    /// The next free byte, and 00 where the event has no more.
    #[tactic(auto, using(crate::proofs::Leaving::first_is, crate::proofs::Leaving::rest_is, crate::proofs::Leaving::none_is))]
    fn take_free(&mut self) -> u8
        ensures state { self.new.state ≡ self.old.state }
        ensures starting { self.new.is_starting ≡ self.old.is_starting }
        ensures value { result ≡ slice_index (left self.old) 0 }
        ensures rest { left self.new ≡ drop 1 (left self.old) }
    {
        match self.handed.free.get(self.handed.taken) {
            Some(byte) => {
                self.handed.taken += 1;
                *byte
            }
            None => 0,
        }
    }

    /// A machine state with its cartridge, between events.
    pub fn new(state: MachineState) -> PlainMachine
        ensures { result.state ≡ state }
    {
        PlainMachine {
            state,
            is_starting: false,
            handed: nothing(),
        }
    }

    /// Whether a read may give any byte, if it is wanted.
    fn is_free_where(&self, wanted: bool, address: u16) -> bool
        ensures { result ≡ (wanted && Memory.is_free (resting self.now.state.rom self.now.state.machine) address) }
    {
        wanted && is_free(&self.state, address)
    }

    /// The free bytes of an instruction in the order of its accesses: those that its fetches take, and then
    /// those of its other reads.
    fn in_order(&self, fetch: [u8; 3], reads: [u8; 2]) -> [u8; 5]
        requires three { is_bytes 3 fetch ≡ true }
        requires two { is_bytes 2 reads ≡ true }
        ensures { IsInOrder (resting self.now.state.rom self.now.state.machine) self.now.state.machine.processor fetch reads result }
    {
        let processor = self.state.processor();
        let length = length_of(fetched(&self.state, &fetch)[0]);
        let first = is_free(&self.state, processor.pc);
        let second = self.is_free_where(length >= 2, second_address(processor));
        let third = self.is_free_where(length >= 3, third_address(processor));
        ordered((first, second, third), fetch, reads)
    }

    /// One step of the processor, with what the event hands in.
    fn step(&mut self, free: [u8; 5], pending: u8) -> Stepped
        ensures { IsStepWith free pending (bus self.old.state.rom self.old.state.machine) result (bus self.new.state.rom self.new.state.machine) }
    {
        self.is_starting = false;
        self.handed = Handed {
            free,
            taken: 0,
            pending,
        };
        let mut cpu = Cpu {
            processor: self.state.processor(),
            is_waiting: false,
        };
        let stepped = cpu.step(self);
        self.state.set_processor(cpu.processor);
        stepped
    }

    /// An instruction, with its free bytes.
    #[tactic(auto, using(crate::proofs::Running::three_bytes, crate::proofs::Running::two_bytes))]
    fn run(&mut self, fetch: [u8; 3], reads: [u8; 2]) -> u64
        requires { is_possible (bus self.old.state.rom self.old.state.machine) (Event.Run fetch reads) ≡ true }
        ensures { IsEvent (bus self.old.state.rom self.old.state.machine) (Event.Run fetch reads) result (bus self.new.state.rom self.new.state.machine) }
    {
        let free = self.in_order(fetch, reads);
        u64::from(self.step(free, 0).cycles)
    }

    /// HALT's special cases: its opcode where PC's byte is free, and every enabled interrupt.
    fn halt(&mut self) -> u64
        ensures stay { is_possible (bus self.old.state.rom self.old.state.machine) Event.HaltStay ≡ true → IsEvent (bus self.old.state.rom self.old.state.machine) Event.HaltStay result (bus self.new.state.rom self.new.state.machine) }
        ensures bug { is_possible (bus self.old.state.rom self.old.state.machine) Event.HaltBug ≡ true → IsEvent (bus self.old.state.rom self.old.state.machine) Event.HaltBug result (bus self.new.state.rom self.new.state.machine) }
    {
        let enabled = self.state.ie() % 32;
        u64::from(self.step([HALT, 0, 0, 0, 0], enabled).cycles)
    }

    /// The dispatch of an interrupt.
    fn dispatch(&mut self, i: u8) -> u64
        requires { is_possible (bus self.old.state.rom self.old.state.machine) (Event.Irq i) ≡ true }
        ensures { IsEvent (bus self.old.state.rom self.old.state.machine) (Event.Irq i) result (bus self.new.state.rom self.new.state.machine) }
    {
        self.is_starting = false;
        let mut cpu = Cpu {
            processor: self.state.processor(),
            is_waiting: false,
        };
        let stepped = cpu.dispatch(self, i);
        self.state.set_processor(cpu.processor);
        u64::from(stepped.cycles)
    }

    /// Lets M-cycles pass, of which a transfer needs no more than it has left.
    #[tactic(auto, unfolding(gb_ops::specs::Machine::next, gb_ops::specs::Machine::only, gb_ops::specs::Machine::is_possible, gb_ops::specs::Machine::happened, gb_ops::specs::Accesses::event_cycles, gb_ops::specs::Memory::passed))]
    fn wait(&mut self, cycles: u64) -> u64
        ensures { IsEvent (bus self.old.state.rom self.old.state.machine) (Event.Wait cycles) result (bus self.new.state.rom self.new.state.machine) }
    {
        if is_running(&self.state) {
            let left = cycles.min(u64::from(self.state.count())) as u8;
            self.state.pass(false, left);
        }
        cycles
    }

    /// `apply`, as the bus between events shows it.
    #[tactic(auto, using(crate::proofs::Running::impossible))]
    fn happen(&mut self, event: Event) -> u64
        ensures next { bus self.new.state.rom self.new.state.machine ≡ Machine.next (bus self.old.state.rom self.old.state.machine) event }
        ensures cycles { is_possible (bus self.old.state.rom self.old.state.machine) event ≡ true → result ≡ event_cycles (bus self.old.state.rom self.old.state.machine) event }
        ensures unchanged { is_possible (bus self.old.state.rom self.old.state.machine) event ≡ false → self.new ≡ self.old }
        ensures none { is_possible (bus self.old.state.rom self.old.state.machine) event ≡ false → result ≡ 0 }
    {
        if !is_possible(&self.state, event) {
            return 0;
        }
        match event {
            Event::Run { fetch, reads } => self.run(fetch, reads),
            Event::HaltStay | Event::HaltBug => self.halt(),
            Event::Irq(i) => self.dispatch(i),
            Event::Wait(cycles) => self.wait(cycles),
        }
    }

    /// Applies an event, and answers its M-cycles. One that isn't possible changes nothing, and has none.
    pub fn apply(&mut self, event: Event) -> u64
        ensures rom { self.new.state.rom ≡ self.old.state.rom }
        ensures machine { self.new.state.machine ≡ Play.next self.old.state.rom self.old.state.machine event }
        ensures next { bus self.new.state.rom self.new.state.machine ≡ Machine.next (bus self.old.state.rom self.old.state.machine) event }
        ensures cycles { is_possible (bus self.old.state.rom self.old.state.machine) event ≡ true → result ≡ event_cycles (bus self.old.state.rom self.old.state.machine) event }
        ensures unchanged { is_possible (bus self.old.state.rom self.old.state.machine) event ≡ false → self.new ≡ self.old }
        ensures none { is_possible (bus self.old.state.rom self.old.state.machine) event ≡ false → result ≡ 0 }
    {
        self.happen(event)
    }
}

/// An event's bytes in the order of its reads, given which of its fetches are free.
fn ordered(free: (bool, bool, bool), fetch: [u8; 3], reads: [u8; 2]) -> [u8; 5]
    ensures { result ≡ ordered free.0 free.1 free.2 (slice_index fetch 0) (slice_index fetch 1) (slice_index fetch 2) (slice_index reads 0) (slice_index reads 1) }
{
    let [first, second, third] = fetch;
    let [low, high] = reads;
    match free {
        (false, false, false) => [low, high, 0, 0, 0],
        (true, false, false) | (false, true, false) | (false, false, true) => {
            [first, low, high, 0, 0]
        }
        (true, true, false) | (true, false, true) | (false, true, true) => {
            [first, second, low, high, 0]
        }
        (true, true, true) => [first, second, third, low, high],
    }
}

/// No free bytes, and no interrupts.
fn nothing() -> Handed {
    Handed {
        free: [0; 5],
        taken: 0,
        pending: 0,
    }
}
