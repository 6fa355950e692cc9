//! A processor with no HALT mark left, and no interrupts that wait for the next instruction: PC goes on, and nothing else is settled.

ghost use Rattle.std.specs.Prelude.{◌≡◌, true};
ghost use Rattle.gb_ops.specs.Machine as Machine;
ghost use Rattle.gb_accesses.specs.Plain.{IsPlain};

use gb_ops::op::{Op, Row};
use gb_ops::registers::{Ime, Processor};

/// Whether no HALT mark is left, and interrupts don't wait for the next instruction.
#[inline(always)]
pub fn is_plain(processor: &Processor) -> bool
    ensures { result ≡ true → IsPlain processor.now }
{
    !processor.halt_mark && !matches!(processor.ime, Ime::Pending)
}

/// How far PC goes; STOP leaves it on the opcode.
#[tactic(auto, unfolding(gb_ops::specs::Machine::way_of))]
fn plain_way(op: Op, length: u16) -> u16
    ensures { result ≡ Machine.way_of op length 0 }
{
    match op {
        Op::Stop => 0,
        _ => length,
    }
}

/// An instruction begins its work, its bytes fetched.
#[inline(always)]
#[tactic(auto, using(crate::proofs::Plainly::advanced_plainly))]
pub fn advance_plainly(processor: &mut Processor, row: Row)
    requires { IsPlain processor.old }
    ensures { processor.new ≡ Machine.advanced processor.old row }
{
    processor.pc = processor
        .pc
        .wrapping_add(plain_way(row.op, u16::from(row.length)));
}
