//! An instruction where no HALT mark is left and interrupts don't wait for it: PC goes on, and nothing else is settled.

ghost use Rattle.std.specs.Prelude.{◌≡◌, ◌∷◌, [], Some, true};
ghost use Rattle.gb_ops.specs.Machine as Machine;
ghost use Rattle.gb_ops.specs.Accesses.{Joined, execute_log, row_log, executed_cycles, row_cycles};
ghost use Rattle.gb_accesses.specs.Access.{row_free_reads};
ghost use Rattle.gb_accesses.specs.Plain.{IsPlain};
ghost use Rattle.gb_cpu.specs.Step.{state};

use crate::step::{Executed, lock};
use gb_accesses::plain::advance_plainly;
use gb_accesses::{Bus, cycles_of, load, perform, read_of, store};
use gb_ops::machine::{Read, Write};
use gb_ops::op::Row;
use gb_ops::registers::Processor;

/// Executes an instruction of the table.
#[inline(always)]
#[tactic(auto, using(gb_accesses::proofs::Joining::joined_append), unfolding(gb_ops::specs::Machine::executed, gb_ops::specs::Accesses::execute_log, gb_ops::specs::Accesses::executed_cycles))]
fn execute_plainly<B: Bus>(processor: &mut Processor, bus: &mut B, row: Row) -> Executed
    requires { IsPlain processor.old }
    ensures state { state processor.new (B.shows bus.new) ≡ Machine.executed (state processor.old (B.shows bus.old)) row result.reads }
    ensures joined { Joined B.does bus.old (execute_log (state processor.old (B.shows bus.old)) row result.reads) bus.new }
    ensures cycles { result.cycles ≡ executed_cycles (state processor.old (B.shows bus.old)) row result.reads }
    ensures free { result.reads ≡ row_free_reads (Some row) (state processor.old (B.shows bus.old)) result.reads }
    ensures in_range { Machine.is_bytes 2 result.reads ≡ true }
{
    advance_plainly(processor, row);
    let read = read_of(row.op, *processor);
    let answer = load(bus, read);
    let outcome = perform(row.op, processor, answer.loaded.low, answer.loaded.high);
    let write = outcome.write;
    store(bus, write);
    let cycles = cycles_of(row, outcome.is_taken);
    bus.pass(cycles);
    let reads = answer.free;
    Executed {
        reads,
        cycles,
        read,
        write,
    }
}

/// A row's instruction, or an undefined opcode.
#[inline(always)]
#[tactic(auto, unfolding(gb_ops::specs::Machine::run_row))]
pub(crate) fn run_plain_row<B: Bus>(
    processor: &mut Processor,
    bus: &mut B,
    row: Option<Row>,
) -> Executed
    requires { IsPlain processor.old }
    ensures state { state processor.new (B.shows bus.new) ≡ Machine.run_row row (state processor.old (B.shows bus.old)) result.reads }
    ensures joined { Joined B.does bus.old (row_log row (state processor.old (B.shows bus.old)) result.reads) bus.new }
    ensures cycles { result.cycles ≡ row_cycles row (state processor.old (B.shows bus.old)) result.reads }
    ensures free { result.reads ≡ row_free_reads row (state processor.old (B.shows bus.old)) result.reads }
    ensures in_range { Machine.is_bytes 2 result.reads ≡ true }
{
    match row {
        Some(row) => execute_plainly(processor, bus, row),
        None => {
            lock(processor, bus);
            Executed {
                reads: [0, 0],
                cycles: 1,
                read: Read::Nothing,
                write: Write::Nothing,
            }
        }
    }
}
