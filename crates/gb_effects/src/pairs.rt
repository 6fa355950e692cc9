//! The register pairs of a processor.

ghost use Rattle.std.specs.Prelude.{◌≡◌};
ghost use Rattle.gb_ops.specs.Pairs as Pairs;

use crate::flags::{flags_byte, flags_of};
use gb_ops::op::{Pair, StackPair};
use gb_ops::registers::Processor;

/// The word of two bytes.
pub fn word(high: u8, low: u8) -> u16
    ensures { result ≡ Pairs.word high low }
{
    256 * u16::from(high) + u16::from(low)
}

/// The value of a pair.
#[tactic(auto, unfolding(gb_ops::specs::Pairs::pair_value))]
pub fn pair_value(processor: Processor, pair: Pair) -> u16
    ensures { result ≡ Pairs.pair_value processor pair }
{
    let registers = processor.registers;
    match pair {
        Pair::Bc => word(registers.b, registers.c),
        Pair::De => word(registers.d, registers.e),
        Pair::Hl => word(registers.h, registers.l),
        Pair::Sp => processor.sp,
    }
}

/// Gives a pair a value.
#[tactic(auto, unfolding(gb_ops::specs::Pairs::with_pair))]
pub fn set_pair(processor: &mut Processor, pair: Pair, word: u16)
    ensures { processor.new ≡ Pairs.with_pair processor.old pair word }
{
    let high = (word / 256) as u8;
    let low = (word % 256) as u8;
    match pair {
        Pair::Bc => {
            processor.registers.b = high;
            processor.registers.c = low;
        }
        Pair::De => {
            processor.registers.d = high;
            processor.registers.e = low;
        }
        Pair::Hl => {
            processor.registers.h = high;
            processor.registers.l = low;
        }
        Pair::Sp => processor.sp = word,
    }
}

/// The value that PUSH stores of a pair.
#[tactic(auto, unfolding(gb_ops::specs::Pairs::stack_pair_value))]
pub fn stack_pair_value(processor: Processor, pair: StackPair) -> u16
    ensures { result ≡ Pairs.stack_pair_value processor pair }
{
    let registers = processor.registers;
    match pair {
        StackPair::Bc => word(registers.b, registers.c),
        StackPair::De => word(registers.d, registers.e),
        StackPair::Hl => word(registers.h, registers.l),
        StackPair::Af => word(registers.a, flags_byte(processor.flags)),
    }
}

/// Gives a pair the bytes that were popped.
#[tactic(auto, unfolding(gb_ops::specs::Pairs::with_stack_pair))]
pub fn set_stack_pair(processor: &mut Processor, pair: StackPair, low: u8, high: u8)
    ensures { processor.new ≡ Pairs.with_stack_pair processor.old pair low high }
{
    match pair {
        StackPair::Bc => {
            processor.registers.b = high;
            processor.registers.c = low;
        }
        StackPair::De => {
            processor.registers.d = high;
            processor.registers.e = low;
        }
        StackPair::Hl => {
            processor.registers.h = high;
            processor.registers.l = low;
        }
        StackPair::Af => {
            processor.registers.a = high;
            processor.flags = flags_of(low);
        }
    }
}
