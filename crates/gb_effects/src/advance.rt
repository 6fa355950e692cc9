//! What executing any instruction does: PC goes on, and interrupts that were pending become on.

ghost use Rattle.std.specs.Prelude.{◌≡◌, ◌≤◌};
ghost use Rattle.gb_ops.specs.Machine as Machine;

use gb_ops::op::{Op, Row};
use gb_ops::registers::{Ime, Processor};

/// The bytes of each instruction, by its first, sixteen opcodes a line.
static LENGTHS: [u8; 256] = [
    1, 3, 1, 1, 1, 1, 2, 1, 3, 1, 1, 1, 1, 1, 2, 1, // 00
    2, 3, 1, 1, 1, 1, 2, 1, 2, 1, 1, 1, 1, 1, 2, 1, // 10
    2, 3, 1, 1, 1, 1, 2, 1, 2, 1, 1, 1, 1, 1, 2, 1, // 20
    2, 3, 1, 1, 1, 1, 2, 1, 2, 1, 1, 1, 1, 1, 2, 1, // 30
    1, 1, 1, 1, 1, 1, 1, 1, 1, 1, 1, 1, 1, 1, 1, 1, // 40
    1, 1, 1, 1, 1, 1, 1, 1, 1, 1, 1, 1, 1, 1, 1, 1, // 50
    1, 1, 1, 1, 1, 1, 1, 1, 1, 1, 1, 1, 1, 1, 1, 1, // 60
    1, 1, 1, 1, 1, 1, 1, 1, 1, 1, 1, 1, 1, 1, 1, 1, // 70
    1, 1, 1, 1, 1, 1, 1, 1, 1, 1, 1, 1, 1, 1, 1, 1, // 80
    1, 1, 1, 1, 1, 1, 1, 1, 1, 1, 1, 1, 1, 1, 1, 1, // 90
    1, 1, 1, 1, 1, 1, 1, 1, 1, 1, 1, 1, 1, 1, 1, 1, // A0
    1, 1, 1, 1, 1, 1, 1, 1, 1, 1, 1, 1, 1, 1, 1, 1, // B0
    1, 1, 3, 3, 3, 1, 2, 1, 1, 1, 3, 2, 3, 3, 2, 1, // C0
    1, 1, 3, 1, 3, 1, 2, 1, 1, 1, 3, 1, 3, 1, 2, 1, // D0
    2, 1, 1, 1, 1, 1, 2, 1, 2, 1, 3, 1, 1, 1, 2, 1, // E0
    2, 1, 1, 1, 1, 1, 2, 1, 2, 1, 3, 1, 1, 1, 2, 1, // F0
];

/// How many bytes an instruction has, by its first; an undefined opcode has one.
#[inline]
pub fn length_of(opcode: u8) -> u8
    ensures { result ≡ Machine.length_of opcode }
{
    LENGTHS[usize::from(opcode)]
}

/// By how much less PC goes on: 1 under the HALT mark.
pub fn mark_of(processor: Processor) -> u16
    ensures value { result ≡ Machine.mark_of processor }
    ensures small { result ≤ 1 }
{
    if processor.halt_mark { 1 } else { 0 }
}

/// Where the second byte of the instruction at PC stands.
pub fn second_address(processor: Processor) -> u16
    ensures { result ≡ Machine.second_address processor }
{
    processor.pc.wrapping_add(1 - mark_of(processor))
}

/// Where the third byte of the instruction at PC stands.
pub fn third_address(processor: Processor) -> u16
    ensures { result ≡ Machine.third_address processor }
{
    processor.pc.wrapping_add(2 - mark_of(processor))
}

/// Whether interrupts are dispatched after an instruction that says nothing of it.
#[tactic(auto, unfolding(gb_ops::specs::Machine::ime_after))]
pub fn ime_after(ime: Ime) -> Ime
    ensures { result ≡ Machine.ime_after ime }
{
    match ime {
        Ime::Off => Ime::Off,
        Ime::Pending | Ime::On => Ime::On,
    }
}

/// How far PC goes; STOP leaves it on the opcode.
#[tactic(auto, unfolding(gb_ops::specs::Machine::way_of))]
fn way_of(op: Op, length: u16, mark: u16) -> u16
    ensures { result ≡ Machine.way_of op length mark }
{
    match op {
        Op::Stop => 0,
        _ => length.saturating_sub(mark),
    }
}

/// The processor behind an instruction, but for PC.
pub fn settled(processor: Processor) -> Processor
    ensures { result ≡ Machine.settled processor }
{
    Processor {
        ime: ime_after(processor.ime),
        halt_mark: false,
        ..processor
    }
}

/// An instruction begins its work, its bytes fetched: PC goes on.
#[tactic(auto, unfolding(gb_ops::specs::Machine::advanced))]
pub fn advance(processor: &mut Processor, row: Row)
    ensures { processor.new ≡ Machine.advanced processor.old row }
{
    let way = way_of(row.op, u16::from(row.length), mark_of(*processor));
    processor.pc = processor.pc.wrapping_add(way);
    processor.ime = ime_after(processor.ime);
    processor.halt_mark = false;
}

/// The M-cycles of an instruction.
pub fn cycles_of(row: Row, is_taken: bool) -> u8
    ensures { result ≡ Machine.cycles_of row is_taken }
{
    if is_taken {
        row.cycles
    } else {
        row.cycles_not_taken
    }
}
