//! What an instruction leaves of what is said of the whole program.

ghost use Rattle.std.specs.Prelude.{◌≡◌};
ghost use Rattle.gb_summaries.specs.Instruction as Instruction;
ghost use Rattle.gb_summaries.specs.Instruction.{IsSoundInstruction};

use crate::stores::{Store, stored_in_ram, switched};
use crate::transfer::after_registers;
use gb_domain::StridedInterval;
use gb_domain::low_bits::none;
use gb_domain::pairs::Bounds;
use gb_domain::places::OneByte;
use gb_domain::program::Program;
use gb_domain::summary::Summary;
use gb_domain::types::Cell;
use gb_ops::machine::Region;
use gb_ops::op::Op;
use gb_ram_bounds::AddressSet;
use gb_relations::Values;
use gb_relations::places::is_ram;

/// What an instruction stores.
#[derive(Clone, Copy)]
pub enum InstructionStore {
    /// Nothing, or a word on the stack.
    Nothing,
    /// One of the values at one of the addresses.
    Byte(AddressSet, StridedInterval),
    /// The bytes of a word at an address and the next one: the low one, then the high one.
    Word(u16, StridedInterval, StridedInterval),
}

/// An address alone.
fn one(address: u16) -> AddressSet
    ensures { result ≡ Instruction.one address }
{
    AddressSet {
        first: address,
        last: address,
        low: none(),
    }
}

#[tactic(auto, unfolding(crate::specs::Instruction::byte_stored))]
fn byte_stored(
    program: &Program<'_>,
    region: Region,
    cells: &[Cell],
    op: Op,
    byte: &OneByte,
    addresses: AddressSet,
    value: StridedInterval,
    summary: &Summary,
) -> Summary
    ensures { result ≡ Instruction.byte_stored program.now region cells.now op byte.now addresses value summary.now }
{
    if addresses.first < 0x8000 {
        switched(program, addresses.first, op.stored(), byte, summary)
    } else if is_ram(addresses.first) {
        let store = Store {
            addresses,
            through: op.pointer(),
            from: op.stored(),
            value,
        };
        stored_in_ram(program, region, cells, &store, summary)
    } else {
        summary.copied()
    }
}

fn after_write(
    program: &Program<'_>,
    region: Region,
    cells: &[Cell],
    op: Op,
    byte: &OneByte,
    stored: InstructionStore,
    summary: &Summary,
) -> Summary
    ensures { result ≡ Instruction.after_write program.now region cells.now op byte.now stored summary.now }
{
    match stored {
        InstructionStore::Nothing => summary.copied(),
        InstructionStore::Byte(addresses, value) => byte_stored(
            program, region, cells, op, byte, addresses, value, summary,
        ),
        InstructionStore::Word(address, low, high) => {
            let no_byte = OneByte::default();
            let next = one(address.wrapping_add(1));
            let address = one(address);
            let after = byte_stored(program, region, cells, op, &no_byte, address, low, summary);
            byte_stored(program, region, cells, op, &no_byte, next, high, &after)
        }
    }
}

#[tactic(auto, unfolding(crate::specs::Instruction::summary_after))]
fn after_effect(
    program: &Program<'_>,
    region: Region,
    cells: &[Cell],
    op: Op,
    sp: Bounds,
    values: &Values,
    byte: &OneByte,
    stored: InstructionStore,
    summary: &Summary,
) -> Summary
    ensures { result ≡ Instruction.summary_after program.now region cells.now op sp values.now byte.now stored summary.now }
{
    let after = after_write(program, region, cells, op, byte, stored, summary);
    after_registers(program, region, op, sp, values, &after)
}

/// What is said of the whole program behind a taken instruction. The values and the places of one byte are those
/// before it, SP has these bounds, and the cells are those after it.
#[tactic(auto, using(crate::proofs::InstructionLaws::summary_after_sound))]
pub fn summary_after(
    program: &Program<'_>,
    region: Region,
    cells: &[Cell],
    op: Op,
    sp: Bounds,
    values: &Values,
    byte: &OneByte,
    stored: InstructionStore,
    summary: &Summary,
) -> Summary
    ensures exact { result ≡ Instruction.summary_after program.now region cells.now op sp values.now byte.now stored summary.now }
    ensures sound { IsSoundInstruction program.now region cells.now op sp values.now byte.now stored summary.now result }
{
    after_effect(
        program, region, cells, op, sp, values, byte, stored, summary,
    )
}
