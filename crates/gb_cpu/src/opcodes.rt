//! An instruction by its opcode, each opcode compiled by itself: where nobody asks for the event.

ghost use Rattle.std.specs.Prelude.{◌≡◌, ◌==◌, ◌≤◌, true, false};
ghost use Rattle.gb_accesses.specs.Plain.{IsPlain};
ghost use Rattle.gb_cpu.specs.Run.{IsOpcodeRun};

use crate::plain::run_plain_row;
use crate::step::Cpu;
use gb_accesses::{Bus, fetch_rest, take};
use gb_ops::decode::decode;

/// The instruction of an opcode that is known as this is compiled. Answers its M-cycles.
fn run_opcode<B: Bus, const OPCODE: u8>(cpu: &mut Cpu, bus: &mut B) -> u8
    requires plain { IsPlain cpu.old.processor }
    requires awake { cpu.old.is_waiting ≡ false }
    ensures runs { IsOpcodeRun B.shows B.does OPCODE cpu.old.processor bus.old result cpu.new.processor bus.new }
    ensures waiting { cpu.new.is_waiting ≡ (OPCODE == 0x76) }
{
    if OPCODE == 0x76 {
        cpu.is_waiting = true;
    }
    let pc = cpu.processor.pc;
    let rest = fetch_rest(bus, OPCODE, pc.wrapping_add(1), pc.wrapping_add(2));
    let row = decode(&[OPCODE, rest.second.byte, rest.third.byte]);
    run_plain_row(&mut cpu.processor, bus, row).cycles
}

/// Calls the instruction of an opcode.
macro_rules! run_each {
    ($opcode:expr, $cpu:expr, $bus:expr, [$($each:literal)*], $last:literal) => {
        match $opcode {
            $($each => run_opcode::<B, $each>($cpu, $bus),)*
            _ => run_opcode::<B, $last>($cpu, $bus),
        }
    };
}

/// The instruction of an opcode 00 to 3F (Pan Docs, CPU Instruction Set, Block 0).
#[inline(always)]
fn run_block_0<B: Bus>(cpu: &mut Cpu, bus: &mut B, opcode: u8) -> u8
    requires plain { IsPlain cpu.old.processor }
    requires awake { cpu.old.is_waiting ≡ false }
    requires most { opcode ≤ 0x3F }
    ensures runs { IsOpcodeRun B.shows B.does opcode cpu.old.processor bus.old result cpu.new.processor bus.new }
    ensures waiting { cpu.new.is_waiting ≡ (opcode == 0x76) }
{
    run_each!(opcode, cpu, bus, [
            0x00 0x01 0x02 0x03 0x04 0x05 0x06 0x07 0x08 0x09 0x0A 0x0B 0x0C 0x0D 0x0E 0x0F
            0x10 0x11 0x12 0x13 0x14 0x15 0x16 0x17 0x18 0x19 0x1A 0x1B 0x1C 0x1D 0x1E 0x1F
            0x20 0x21 0x22 0x23 0x24 0x25 0x26 0x27 0x28 0x29 0x2A 0x2B 0x2C 0x2D 0x2E 0x2F
            0x30 0x31 0x32 0x33 0x34 0x35 0x36 0x37 0x38 0x39 0x3A 0x3B 0x3C 0x3D 0x3E
    ], 0x3F)
}

/// The instruction of an opcode 40 to 7F (Pan Docs, CPU Instruction Set, Block 1: 8-bit register-to-register loads).
#[inline(always)]
fn run_block_1<B: Bus>(cpu: &mut Cpu, bus: &mut B, opcode: u8) -> u8
    requires plain { IsPlain cpu.old.processor }
    requires awake { cpu.old.is_waiting ≡ false }
    requires least { 0x40 ≤ opcode }
    requires most { opcode ≤ 0x7F }
    ensures runs { IsOpcodeRun B.shows B.does opcode cpu.old.processor bus.old result cpu.new.processor bus.new }
    ensures waiting { cpu.new.is_waiting ≡ (opcode == 0x76) }
{
    run_each!(opcode, cpu, bus, [
            0x40 0x41 0x42 0x43 0x44 0x45 0x46 0x47 0x48 0x49 0x4A 0x4B 0x4C 0x4D 0x4E 0x4F
            0x50 0x51 0x52 0x53 0x54 0x55 0x56 0x57 0x58 0x59 0x5A 0x5B 0x5C 0x5D 0x5E 0x5F
            0x60 0x61 0x62 0x63 0x64 0x65 0x66 0x67 0x68 0x69 0x6A 0x6B 0x6C 0x6D 0x6E 0x6F
            0x70 0x71 0x72 0x73 0x74 0x75 0x76 0x77 0x78 0x79 0x7A 0x7B 0x7C 0x7D 0x7E
    ], 0x7F)
}

/// The instruction of an opcode 80 to BF (Pan Docs, CPU Instruction Set, Block 2: 8-bit arithmetic).
#[inline(always)]
fn run_block_2<B: Bus>(cpu: &mut Cpu, bus: &mut B, opcode: u8) -> u8
    requires plain { IsPlain cpu.old.processor }
    requires awake { cpu.old.is_waiting ≡ false }
    requires least { 0x80 ≤ opcode }
    requires most { opcode ≤ 0xBF }
    ensures runs { IsOpcodeRun B.shows B.does opcode cpu.old.processor bus.old result cpu.new.processor bus.new }
    ensures waiting { cpu.new.is_waiting ≡ (opcode == 0x76) }
{
    run_each!(opcode, cpu, bus, [
            0x80 0x81 0x82 0x83 0x84 0x85 0x86 0x87 0x88 0x89 0x8A 0x8B 0x8C 0x8D 0x8E 0x8F
            0x90 0x91 0x92 0x93 0x94 0x95 0x96 0x97 0x98 0x99 0x9A 0x9B 0x9C 0x9D 0x9E 0x9F
            0xA0 0xA1 0xA2 0xA3 0xA4 0xA5 0xA6 0xA7 0xA8 0xA9 0xAA 0xAB 0xAC 0xAD 0xAE 0xAF
            0xB0 0xB1 0xB2 0xB3 0xB4 0xB5 0xB6 0xB7 0xB8 0xB9 0xBA 0xBB 0xBC 0xBD 0xBE
    ], 0xBF)
}

/// The instruction of an opcode C0 to FF (Pan Docs, CPU Instruction Set, Block 3).
#[inline(always)]
fn run_block_3<B: Bus>(cpu: &mut Cpu, bus: &mut B, opcode: u8) -> u8
    requires plain { IsPlain cpu.old.processor }
    requires awake { cpu.old.is_waiting ≡ false }
    requires least { 0xC0 ≤ opcode }
    ensures runs { IsOpcodeRun B.shows B.does opcode cpu.old.processor bus.old result cpu.new.processor bus.new }
    ensures waiting { cpu.new.is_waiting ≡ (opcode == 0x76) }
{
    run_each!(opcode, cpu, bus, [
            0xC0 0xC1 0xC2 0xC3 0xC4 0xC5 0xC6 0xC7 0xC8 0xC9 0xCA 0xCB 0xCC 0xCD 0xCE 0xCF
            0xD0 0xD1 0xD2 0xD3 0xD4 0xD5 0xD6 0xD7 0xD8 0xD9 0xDA 0xDB 0xDC 0xDD 0xDE 0xDF
            0xE0 0xE1 0xE2 0xE3 0xE4 0xE5 0xE6 0xE7 0xE8 0xE9 0xEA 0xEB 0xEC 0xED 0xEE 0xEF
            0xF0 0xF1 0xF2 0xF3 0xF4 0xF5 0xF6 0xF7 0xF8 0xF9 0xFA 0xFB 0xFC 0xFD 0xFE
    ], 0xFF)
}

/// The instruction of an opcode. Answers its M-cycles. The four blocks are one jump when they are compiled, and one by one
/// they are proved sooner.
fn run_by_opcode<B: Bus>(cpu: &mut Cpu, bus: &mut B, opcode: u8) -> u8
    requires plain { IsPlain cpu.old.processor }
    requires awake { cpu.old.is_waiting ≡ false }
    ensures runs { IsOpcodeRun B.shows B.does opcode cpu.old.processor bus.old result cpu.new.processor bus.new }
    ensures waiting { cpu.new.is_waiting ≡ (opcode == 0x76) }
{
    match opcode {
        0x00..=0x3F => run_block_0(cpu, bus, opcode),
        0x40..=0x7F => run_block_1(cpu, bus, opcode),
        0x80..=0xBF => run_block_2(cpu, bus, opcode),
        0xC0..=0xFF => run_block_3(cpu, bus, opcode),
    }
}

impl Cpu {
    ghost use Rattle.gb_cpu.specs.Run.{IsReady, IsSomeStep};

    /// Does what `step` does if an instruction comes next, no HALT mark is left, interrupts don't wait and none is shared; it
    /// answers the M-cycles alone.
    #[inline(always)]
    pub fn run<B: Bus>(&mut self, bus: &mut B) -> u8
        requires ready { IsReady self.old }
        requires unshared { B.shared bus.old ≡ 0 }
        ensures { IsSomeStep B.shows B.does (B.shared bus.old) self.old bus.old result self.new bus.new }
    {
        let first = take(bus, self.processor.pc);
        run_by_opcode(self, bus, first.byte)
    }
}
