//! The reads of an event: its free bytes answer those that are not fixed, in order.

ghost use Rattle.std.specs.Prelude.{◌≡◌, ◌≤◌, nat_le};
ghost use Rattle.gb_ops.specs.Machine as Machine;
ghost use Rattle.gb_plain.specs.Shown.{resting};

use crate::memory::{byte_at, is_free};
use crate::state::MachineState;
use gb_effects::advance::{length_of, second_address, third_address};
use gb_ops::machine::{Loaded, Read};

/// A byte that was read, and the free bytes that are left.
#[derive(Clone, Copy)]
struct Reading<'f> {
    value: u8,
    rest: &'f [u8],
}

/// Reads a byte.
#[tactic(auto, unfolding(gb_ops::specs::Machine::read_at))]
fn read_at<'f>(state: &MachineState, address: u16, free: &'f [u8]) -> Reading<'f>
    ensures value { result.value ≡ (Machine.read_at (resting state.now.rom state.now.machine) address free.now).value }
    ensures rest { result.rest.now ≡ (Machine.read_at (resting state.now.rom state.now.machine) address free.now).rest }
{
    if is_free(state, address) {
        Reading {
            value: free.first().copied().unwrap_or(0),
            rest: free.get(1..).unwrap_or(&[]),
        }
    } else {
        Reading {
            value: byte_at(state, address),
            rest: free,
        }
    }
}

/// Reads a byte if it is wanted.
#[tactic(auto, unfolding(gb_ops::specs::Machine::read_where))]
fn read_where<'f>(wanted: bool, state: &MachineState, address: u16, free: &'f [u8]) -> Reading<'f>
    ensures value { result.value ≡ (Machine.read_where wanted (resting state.now.rom state.now.machine) address free.now).value }
    ensures rest { result.rest.now ≡ (Machine.read_where wanted (resting state.now.rom state.now.machine) address free.now).rest }
{
    if wanted {
        read_at(state, address, free)
    } else {
        Reading {
            value: 0,
            rest: free,
        }
    }
}

/// The bytes of the instruction at PC, three of them, 00 behind its length.
#[tactic(auto, unfolding(gb_ops::specs::Machine::fetched))]
pub fn fetched(state: &MachineState, free: &[u8]) -> [u8; 3]
    ensures { result ≡ Machine.fetched (resting state.now.rom state.now.machine) state.now.machine.processor free.now }
{
    let processor = state.processor();
    let first = read_at(state, processor.pc, free);
    let length = length_of(first.value);
    let at = second_address(processor);
    let second = read_where(length >= 2, state, at, first.rest);
    let at = third_address(processor);
    let third = read_where(length >= 3, state, at, second.rest);
    [first.value, second.value, third.value]
}

/// What the reads of an instruction give.
#[tactic(auto, unfolding(gb_ops::specs::Machine::loaded))]
pub fn loaded(state: &MachineState, what: Read, free: &[u8]) -> Loaded
    ensures { result ≡ Machine.loaded (resting state.now.rom state.now.machine) what free.now }
{
    match what {
        Read::Nothing => Loaded { low: 0, high: 0 },
        Read::Byte(address) => Loaded {
            low: read_at(state, address, free).value,
            high: 0,
        },
        Read::Word(address) => {
            let first = read_at(state, address, free);
            let second = read_at(state, address.wrapping_add(1), first.rest);
            Loaded {
                low: first.value,
                high: second.value,
            }
        }
    }
}
