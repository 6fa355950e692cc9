//! The event of a step: what is taken before it, and which one it is.

ghost use Rattle.std.specs.Prelude.{◌≡◌, true, false, if◌then◌else◌, IfSome};
ghost use Rattle.gb_ops.specs.Accesses.{Joined, accesses_of, event_cycles};
ghost use Rattle.gb_ops.specs.Machine.{is_ime, is_possible};
ghost use Rattle.gb_ops.specs.Play.{IsStep};
ghost use Rattle.gb_ops.specs.declared.registers.Ime.TheVariants as ime;
ghost use Rattle.gb_cpu.specs.Below.gb_timer.Interrupts.{next_irq};
ghost use Rattle.gb_cpu.specs.Below.gb_bus.Access.{IsAccessed};
ghost use Rattle.gb_cpu.specs.Below.gb_accesses.Access.{HasFreeBytes};
ghost use Rattle.gb_cpu.specs.Choice.{waits_after, is_idle};
ghost use Rattle.gb_cpu.specs.Met.{HasMet};
ghost use Rattle.gb_cpu.specs.Step.{state, IsDispatchable};
ghost use Rattle.gb_console.specs.Console.{IsChosen, interrupt, told};

use bitflags::Flags;
use gb_cpu::step::{Cpu, Stepped};
use gb_cpu::{Bus, Irqs, Keys, Memory, next_irq};
use gb_ops::registers::Ime;

/// The keys that are held from now on, and so many seconds that passed.
fn tell(memory: &mut Memory<'_>, keys: Keys, seconds: u32)
    ensures { memory.new ≡ told memory.old keys seconds }
{
    memory.set_keys(keys);
    memory.advance_clock(seconds);
}

/// Whether the processor does nothing any more.
fn is_idle(cpu: Cpu) -> bool
    ensures { result ≡ is_idle cpu }
{
    cpu.processor.locked || cpu.processor.stopped
}

/// What a step takes before its event; a locked or stopped processor takes nothing.
pub(crate) fn take(cpu: Cpu, memory: &mut Memory<'_>, keys: Keys, seconds: u32)
    ensures { memory.new ≡ (if is_idle cpu then memory.old else told memory.old keys seconds) }
{
    if !is_idle(cpu) {
        tell(memory, keys, seconds);
    }
}

/// The lowest of the shared interrupts, where IME is on.
fn lowest(master: Ime, shared: u8) -> Option<u8>
    ensures { result ≡ next_irq (is_ime master ime.On) shared shared }
{
    let is_on = matches!(master, Ime::On);
    next_irq(is_on, shared, Irqs::from_bits_retain(shared))
}

/// The interrupt that is dispatched next.
#[tactic(auto, using(crate::proofs::Interrupts::shared_irq), unfolding(crate::specs::Console::interrupt))]
fn interrupt(cpu: Cpu, memory: &mut Memory<'_>) -> Option<u8>
    ensures same { memory.new ≡ memory.old }
    ensures interrupt { result ≡ interrupt cpu memory.old }
    ensures running { IfSome result (λ i. is_idle cpu ≡ false) }
    ensures possible { IfSome result (IsDispatchable (state cpu.processor memory.old.view)) }
{
    if is_idle(cpu) {
        return None;
    }
    let shared = memory.pending();
    lowest(cpu.processor.ime, shared)
}

/// The next event: its effect on the processor and the memory.
pub(crate) fn act(cpu: &mut Cpu, memory: &mut Memory<'_>) -> Stepped
    ensures machine { IsStep (state cpu.old.processor memory.old.view) result.event (state cpu.new.processor memory.new.view) }
    ensures joined { Joined IsAccessed memory.old (accesses_of (state cpu.old.processor memory.old.view) result.event) memory.new }
    ensures choice { IsChosen (interrupt cpu.old memory.old) cpu.old memory.old result.event }
    ensures cycles { result.cycles ≡ event_cycles (state cpu.old.processor memory.old.view) result.event }
    ensures free { HasFreeBytes (state cpu.old.processor memory.old.view) result.event }
    ensures waiting { cpu.new.is_waiting ≡ waits_after cpu.old (state cpu.old.processor memory.old.view) result.event }
    ensures possible { is_possible (state cpu.old.processor memory.old.view) result.event ≡ true }
    ensures met { HasMet (state cpu.old.processor memory.old.view) result.event result.met }
{
    match interrupt(*cpu, memory) {
        Some(i) => cpu.dispatch(memory, i),
        None => cpu.step(memory),
    }
}
