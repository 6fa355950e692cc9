//! One step of the processor, and an interrupt's dispatch.
//!
//! The parts of a step are inlined into its caller: one that drops the event pays nothing for its bytes.

ghost use Rattle.std.specs.Prelude.{Some, None, if◌then◌else◌, [], ◌∷◌, ℕ, true, ◌%◌, IsTrue, ◌==◌, slice_index, ◌≡◌, ◌<◌, ◌≤◌, ◌^◌, ◌≢◌};
ghost use Rattle.gb_ops.specs.Machine as Machine;
ghost use Rattle.gb_ops.specs.Accesses.{Joined, execute_log, row_log, accesses_of, executed_cycles, row_cycles, event_cycles};
ghost use Rattle.gb_ops.specs.Accesses as access;
ghost use Rattle.gb_ops.specs.Play.{IsStep};
ghost use Rattle.gb_accesses.specs.Access.{row_free_reads, HasFreeBytes};
ghost use Rattle.gb_cpu.specs.Met.{HasMet, IsRowMet};
ghost use Rattle.gb_cpu.specs.Step.{state, IsSpecial, IsDispatchable};
ghost use Rattle.gb_ops.specs.declared.machine.Read.TheVariants as read;

use gb_accesses::plain::is_plain;
use gb_accesses::{
    Bus, advance, cycles_of, fetch, load, mark_of, perform, read_of, settled, store, with_pc,
    with_sp,
};
use gb_ops::decode::decode;
use gb_ops::machine::{Event, Read, Write};
use gb_ops::op::Row;
use gb_ops::registers::{Ime, Processor};
use std::fmt;

/// The free bytes that an instruction read, its M-cycles, and what it read and wrote.
#[derive(Clone, Copy)]
pub(crate) struct Executed {
    pub(crate) reads: [u8; 2],
    pub(crate) cycles: u8,
    pub(crate) read: Read,
    pub(crate) write: Write,
}

/// Executes an instruction of the table.
#[inline(always)]
#[tactic(auto, using(gb_accesses::proofs::Joining::joined_append), unfolding(gb_ops::specs::Machine::executed, gb_ops::specs::Accesses::execute_log, gb_ops::specs::Accesses::executed_cycles))]
fn execute<B: Bus>(processor: &mut Processor, bus: &mut B, row: Row) -> Executed
    ensures state { state processor.new (B.shows bus.new) ≡ Machine.executed (state processor.old (B.shows bus.old)) row result.reads }
    ensures joined { Joined B.does bus.old (execute_log (state processor.old (B.shows bus.old)) row result.reads) bus.new }
    ensures cycles { result.cycles ≡ executed_cycles (state processor.old (B.shows bus.old)) row result.reads }
    ensures free { result.reads ≡ row_free_reads (Some row) (state processor.old (B.shows bus.old)) result.reads }
    ensures in_range { Machine.is_bytes 2 result.reads ≡ true }
    ensures met { IsRowMet (Some row) (state processor.old (B.shows bus.old)) result.reads result.read result.write }
{
    advance(processor, row);
    let read = read_of(row.op, *processor);
    let answer = load(bus, read);
    let outcome = perform(row.op, processor, answer.loaded.low, answer.loaded.high);
    let write = outcome.write;
    store(bus, write);
    let cycles = cycles_of(row, outcome.is_taken);
    bus.pass(cycles);
    let reads = answer.free;
    Executed {
        reads,
        cycles,
        read,
        write,
    }
}

/// The interrupts that are enabled and requested.
#[inline(always)]
#[tactic(auto, using(crate::proofs::Pending::enabled_is))]
fn pending<B: Bus>(bus: &mut B) -> u8
    ensures same { bus.new ≡ bus.old }
    ensures value { result ≡ B.shared bus.old }
    ensures enabled { result ≢ 0 → (B.shows bus.old).storage.ie % 32 ≢ 0 }
{
    bus.pending()
}

/// What an event met: the bytes of its instruction, 00 after its length, and what it read and wrote
/// besides them.
#[derive(Clone, Copy, PartialEq, Eq)]
pub struct Met {
    pub bytes: [u8; 3],
    pub read: Read,
    pub write: Write,
}

impl fmt::Debug for Met {
    /// The bytes of the instruction: what it read and wrote follows from them and the state.
    fn fmt<W: fmt::Write>(&self, f: &mut fmt::Formatter<W>) -> fmt::Result {
        let [first, second, third] = self.bytes;
        write!(f, "Met({first:02X} {second:02X} {third:02X})")
    }
}

/// An event that happened, its M-cycles, and what it met.
#[derive(Clone, Copy, Debug, PartialEq, Eq)]
pub struct Stepped {
    pub event: Event,
    pub cycles: u8,
    pub met: Met,
}

/// An event that met nothing but a write.
fn answer(event: Event, cycles: u8, write: Write) -> Stepped
    ensures { result ≡ record { event = event; cycles = cycles; met = record { bytes = 0 ∷ 0 ∷ 0 ∷ []; read = read.Nothing; write = write } } }
{
    Stepped {
        event,
        cycles,
        met: Met {
            bytes: [0, 0, 0],
            read: Read::Nothing,
            write,
        },
    }
}

/// The processor.
#[derive(Clone, Copy)]
pub struct Cpu {
    pub processor: Processor,
    /// A HALT was executed, and no interrupt has ended it.
    pub is_waiting: bool,
}

/// An undefined opcode.
#[inline(always)]
#[tactic(auto, unfolding(gb_ops::specs::Machine::locked))]
pub(crate) fn lock<B: Bus>(processor: &mut Processor, bus: &mut B)
    ensures state { state processor.new (B.shows bus.new) ≡ Machine.locked (state processor.old (B.shows bus.old)) }
    ensures joined { Joined B.does bus.old (access.Passes 1 ∷ []) bus.new }
{
    bus.pass(1);
    *processor = Processor {
        locked: true,
        ..settled(*processor)
    };
}

/// A row's instruction, or an undefined opcode.
#[inline(always)]
#[tactic(auto, unfolding(gb_ops::specs::Machine::run_row))]
fn run_row<B: Bus>(processor: &mut Processor, bus: &mut B, row: Option<Row>) -> Executed
    ensures state { state processor.new (B.shows bus.new) ≡ Machine.run_row row (state processor.old (B.shows bus.old)) result.reads }
    ensures joined { Joined B.does bus.old (row_log row (state processor.old (B.shows bus.old)) result.reads) bus.new }
    ensures cycles { result.cycles ≡ row_cycles row (state processor.old (B.shows bus.old)) result.reads }
    ensures free { result.reads ≡ row_free_reads row (state processor.old (B.shows bus.old)) result.reads }
    ensures in_range { Machine.is_bytes 2 result.reads ≡ true }
    ensures met { IsRowMet row (state processor.old (B.shows bus.old)) result.reads result.read result.write }
{
    match row {
        Some(row) => execute(processor, bus, row),
        None => {
            lock(processor, bus);
            Executed {
                reads: [0, 0],
                cycles: 1,
                read: Read::Nothing,
                write: Write::Nothing,
            }
        }
    }
}

/// Interrupts become on, and PC stays on the HALT.
#[inline(always)]
#[tactic(auto, unfolding(gb_ops::specs::Machine::halt_stay))]
fn stay<B: Bus>(processor: Processor, bus: &mut B) -> Processor
    ensures state { state result (B.shows bus.new) ≡ Machine.halt_stay (state processor (B.shows bus.old)) }
    ensures joined { Joined B.does bus.old (access.Passes 1 ∷ []) bus.new }
{
    bus.pass(1);
    Processor {
        ime: Ime::On,
        ..processor
    }
}

/// PC goes on, and the next instruction's first byte will be read twice.
#[inline(always)]
#[tactic(auto, unfolding(gb_ops::specs::Machine::halt_bug))]
fn leave_mark<B: Bus>(processor: Processor, bus: &mut B) -> Processor
    ensures state { state result (B.shows bus.new) ≡ Machine.halt_bug (state processor (B.shows bus.old)) }
    ensures joined { Joined B.does bus.old (access.Passes 1 ∷ []) bus.new }
{
    bus.pass(1);
    let way = 1 - mark_of(processor);
    Processor {
        pc: processor.pc.wrapping_add(way),
        halt_mark: true,
        ..processor
    }
}

/// Which special case of HALT it is where an enabled interrupt is requested.
#[derive(Clone, Copy)]
enum Special {
    Stay,
    Bug,
}

/// The special case of HALT that an opcode is, under the interrupts that are shared.
fn special_case(opcode: u8, ime: Ime, shared: u8) -> Option<Special>
    ensures { IsSpecial opcode ime shared result }
{
    if opcode != 0x76 || shared == 0 {
        return None;
    }
    match ime {
        Ime::Off => Some(Special::Bug),
        Ime::Pending => Some(Special::Stay),
        Ime::On => None,
    }
}

impl Cpu {
    ghost use Rattle.gb_cpu.specs.Choice.{IsChoice, is_idle, waits_after};
    ghost use Rattle.gb_cpu.specs.Run.{IsReady};

    /// Whether an instruction comes next, and nothing else is due with it: no HALT mark is left, and interrupts don't wait.
    #[inline(always)]
    #[tactic(auto, using(crate::proofs::Ready::is_ready))]
    pub fn is_ready(&self) -> bool
        ensures { result ≡ true → IsReady self.now }
    {
        let rests = self.is_waiting | self.processor.locked | self.processor.stopped;
        !rests && is_plain(&self.processor)
    }

    /// The next event but interrupts: its effect on the processor and the bus.
    #[inline(always)]
    #[tactic(auto, using(gb_accesses::proofs::Joining::joined_append, crate::proofs::Halting::has_halt_is, crate::proofs::Halting::fetch_log_halt), unfolding(gb_ops::specs::Machine::next, gb_ops::specs::Machine::only, gb_ops::specs::Machine::is_possible, gb_ops::specs::Machine::happened, gb_ops::specs::Machine::run, gb_ops::specs::Accesses::accesses_of, gb_ops::specs::Accesses::event_cycles))]
    fn act<B: Bus>(&mut self, bus: &mut B) -> Stepped
        ensures state { state self.new.processor (B.shows bus.new) ≡ Machine.next (state self.old.processor (B.shows bus.old)) result.event }
        ensures joined { Joined B.does bus.old (accesses_of (state self.old.processor (B.shows bus.old)) result.event) bus.new }
        ensures choice { IsChoice self.old (B.shared bus.old) (state self.old.processor (B.shows bus.old)) result.event }
        ensures cycles { result.cycles ≡ event_cycles (state self.old.processor (B.shows bus.old)) result.event }
        ensures free { HasFreeBytes (state self.old.processor (B.shows bus.old)) result.event }
        ensures waiting { self.new.is_waiting ≡ waits_after self.old (state self.old.processor (B.shows bus.old)) result.event }
        ensures possible { Machine.is_possible (state self.old.processor (B.shows bus.old)) result.event ≡ true }
        ensures met { HasMet (state self.old.processor (B.shows bus.old)) result.event result.met }
    {
        let processor = self.processor;
        if processor.locked || processor.stopped {
            return answer(Event::Wait(0), 0, Write::Nothing);
        }
        let shared = pending(bus);
        if self.is_waiting && shared == 0 {
            bus.pass(1);
            return answer(Event::Wait(1), 1, Write::Nothing);
        }
        let fetched = fetch(bus, processor);
        let fetch = fetched.free;
        let opcode = fetched.bytes[0];
        self.is_waiting = false;
        match special_case(opcode, processor.ime, shared) {
            Some(Special::Stay) => {
                self.processor = stay(processor, bus);
                answer(Event::HaltStay, 1, Write::Nothing)
            }
            Some(Special::Bug) => {
                self.processor = leave_mark(processor, bus);
                answer(Event::HaltBug, 1, Write::Nothing)
            }
            None => {
                let executed = run_row(&mut self.processor, bus, decode(&fetched.bytes));
                self.is_waiting = opcode == 0x76;
                let reads = executed.reads;
                Stepped {
                    event: Event::Run { fetch, reads },
                    cycles: executed.cycles,
                    met: Met {
                        bytes: fetched.bytes,
                        read: executed.read,
                        write: executed.write,
                    },
                }
            }
        }
    }

    /// The next event but interrupts: its effect on the processor and the bus.
    #[inline(always)]
    pub fn step<B: Bus>(&mut self, bus: &mut B) -> Stepped
        ensures machine { IsStep (state self.old.processor (B.shows bus.old)) result.event (state self.new.processor (B.shows bus.new)) }
        ensures next { state self.new.processor (B.shows bus.new) ≡ Machine.next (state self.old.processor (B.shows bus.old)) result.event }
        ensures joined { Joined B.does bus.old (accesses_of (state self.old.processor (B.shows bus.old)) result.event) bus.new }
        ensures choice { IsChoice self.old (B.shared bus.old) (state self.old.processor (B.shows bus.old)) result.event }
        ensures cycles { result.cycles ≡ event_cycles (state self.old.processor (B.shows bus.old)) result.event }
        ensures free { HasFreeBytes (state self.old.processor (B.shows bus.old)) result.event }
        ensures waiting { self.new.is_waiting ≡ waits_after self.old (state self.old.processor (B.shows bus.old)) result.event }
        ensures possible { Machine.is_possible (state self.old.processor (B.shows bus.old)) result.event ≡ true }
        ensures met { HasMet (state self.old.processor (B.shows bus.old)) result.event result.met }
    {
        self.act(bus)
    }

    /// An interrupt's dispatch, where it is possible.
    #[inline(always)]
    pub fn dispatch<B: Bus>(&mut self, bus: &mut B, i: u8) -> Stepped
        requires { IsDispatchable (state self.old.processor (B.shows bus.old)) i }
        ensures machine { IsStep (state self.old.processor (B.shows bus.old)) result.event (state self.new.processor (B.shows bus.new)) }
        ensures next { state self.new.processor (B.shows bus.new) ≡ Machine.next (state self.old.processor (B.shows bus.old)) result.event }
        ensures joined { Joined B.does bus.old (accesses_of (state self.old.processor (B.shows bus.old)) result.event) bus.new }
        ensures choice { result.event ≡ (if is_idle self.old then Event.Wait 0 else Event.Irq i) }
        ensures cycles { result.cycles ≡ event_cycles (state self.old.processor (B.shows bus.old)) result.event }
        ensures waiting { self.new.is_waiting ≡ waits_after self.old (state self.old.processor (B.shows bus.old)) result.event }
        ensures possible { Machine.is_possible (state self.old.processor (B.shows bus.old)) result.event ≡ true }
        ensures met { HasMet (state self.old.processor (B.shows bus.old)) result.event result.met }
    {
        self.interrupt(bus, i)
    }

    /// The dispatch: its effect on the processor and the bus.
    #[inline(always)]
    #[tactic(auto, using(gb_accesses::proofs::Joining::joined_append), unfolding(gb_ops::specs::Machine::next, gb_ops::specs::Machine::only, gb_ops::specs::Machine::is_possible, gb_ops::specs::Machine::happened, gb_ops::specs::Machine::dispatched, gb_ops::specs::Accesses::accesses_of, gb_ops::specs::Accesses::event_cycles))]
    fn interrupt<B: Bus>(&mut self, bus: &mut B, i: u8) -> Stepped
        requires { IsDispatchable (state self.old.processor (B.shows bus.old)) i }
        ensures state { state self.new.processor (B.shows bus.new) ≡ Machine.next (state self.old.processor (B.shows bus.old)) result.event }
        ensures joined { Joined B.does bus.old (accesses_of (state self.old.processor (B.shows bus.old)) result.event) bus.new }
        ensures choice { result.event ≡ (if is_idle self.old then Event.Wait 0 else Event.Irq i) }
        ensures cycles { result.cycles ≡ event_cycles (state self.old.processor (B.shows bus.old)) result.event }
        ensures waiting { self.new.is_waiting ≡ waits_after self.old (state self.old.processor (B.shows bus.old)) result.event }
        ensures possible { Machine.is_possible (state self.old.processor (B.shows bus.old)) result.event ≡ true }
        ensures met { HasMet (state self.old.processor (B.shows bus.old)) result.event result.met }
    {
        let processor = self.processor;
        if processor.locked || processor.stopped {
            return answer(Event::Wait(0), 0, Write::Nothing);
        }
        let push = Write::Push(processor.sp, processor.pc);
        bus.acknowledge(i);
        store(bus, push);
        bus.pass(5);
        let below = with_sp(processor, processor.sp.wrapping_sub(2));
        self.is_waiting = false;
        self.processor = Processor {
            ime: Ime::Off,
            ..with_pc(below, 0x40 + 8 * u16::from(i))
        };
        answer(Event::Irq(i), 5, push)
    }
}
