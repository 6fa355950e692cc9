//! What an instruction reads and writes, over any memory bus.
//!
//! `fetch`, `load` and `store` make the accesses of one instruction, in order, and nothing else. The key contract is
//! `joined` of each: these accesses lead from the bus before them to the bus behind them. `specs/Access.antt` says which
//! bytes were free.
#![tactic(auto)]

ghost use Rattle.std.specs.Prelude.{[], ◌∷◌, ◌++◌, ◌≡◌, ◌<◌, ◌&&◌, nat_le, true};
ghost use Rattle.gb_ops.specs.Memory.{is_free, stored};
ghost use Rattle.gb_ops.specs.Machine.{fetched, loaded, is_bytes, length_of};
ghost use Rattle.gb_ops.specs.Accesses.{Joined, where_wanted, fetch_log, load_log, store_log};
ghost use Rattle.gb_ops.specs.Accesses as access;
ghost use Rattle.gb_accesses.specs.Access.{Gave, queued, queued_two, free_fetches, free_reads};

pub mod plain;

use gb_bus::Taken;
use gb_effects::advance::{length_of, second_address, third_address};
use gb_ops::machine::{Loaded, Read, Write};
use gb_ops::registers::Processor;

// What lies below, for the crates above.
pub use gb_bus::{Bus, FRAME_CYCLES, HEIGHT, Irqs, Keys, Memory, WIDTH, next_irq};
pub use gb_effects::advance::{advance, cycles_of, mark_of, settled};
pub use gb_effects::effect::{perform, read_of, with_pc, with_sp};

/// Reads a byte.
#[inline(always)]
#[tactic(auto, using(crate::proofs::Fetching::gave))]
pub fn take<B: Bus>(bus: &mut B, address: u16) -> Taken
    ensures view { B.shows bus.new ≡ B.shows bus.old }
    ensures gave { Gave true (B.shows bus.old) address result.is_free result.byte }
    ensures free { result.is_free ≡ is_free (B.shows bus.old) address }
    ensures joined { Joined B.does bus.old (access.Reads address result.byte ∷ []) bus.new }
{
    bus.take(address)
}

/// Reads a byte if it is wanted.
#[inline(always)]
#[tactic(auto, unfolding(gb_ops::specs::Machine::read_where))]
fn take_where<B: Bus>(bus: &mut B, wanted: bool, address: u16) -> Taken
    ensures view { B.shows bus.new ≡ B.shows bus.old }
    ensures gave { Gave wanted (B.shows bus.old) address result.is_free result.byte }
    ensures free { result.is_free ≡ (wanted && is_free (B.shows bus.old) address) }
    ensures joined { Joined B.does bus.old (where_wanted wanted (access.Reads address result.byte)) bus.new }
{
    if wanted {
        take(bus, address)
    } else {
        Taken {
            byte: 0,
            is_free: false,
        }
    }
}

/// The free bytes with one before them, if it was free.
fn queue(taken: Taken, free: [u8; 3]) -> [u8; 3]
    requires { is_bytes 3 free ≡ true }
    ensures value { result ≡ queued taken.is_free taken.byte free }
    ensures bytes { is_bytes 3 result ≡ true }
{
    if taken.is_free {
        [taken.byte, free[0], free[1]]
    } else {
        free
    }
}

/// Two free bytes with one before them, if it was free.
fn queue_two(taken: Taken, free: [u8; 2]) -> [u8; 2]
    requires { is_bytes 2 free ≡ true }
    ensures value { result ≡ queued_two taken.is_free taken.byte free }
    ensures bytes { is_bytes 2 result ≡ true }
{
    if taken.is_free {
        [taken.byte, free[0]]
    } else {
        free
    }
}

/// The bytes of an instruction, and those of them that were free, in order.
#[derive(Clone, Copy)]
pub struct Fetched {
    pub bytes: [u8; 3],
    pub free: [u8; 3],
}

/// An instruction's second and third byte; one behind its length is 00, and not free.
#[derive(Clone, Copy)]
pub struct Rest {
    pub second: Taken,
    pub third: Taken,
}

/// Reads the bytes of an instruction behind its first, at these addresses.
#[inline(always)]
#[tactic(auto, using(crate::proofs::Joining::joined_append))]
pub fn fetch_rest<B: Bus>(bus: &mut B, opcode: u8, second: u16, third: u16) -> Rest
    ensures view { B.shows bus.new ≡ B.shows bus.old }
    ensures second_gave { Gave (nat_le 2 (length_of opcode)) (B.shows bus.old) second result.second.is_free result.second.byte }
    ensures third_gave { Gave (nat_le 3 (length_of opcode)) (B.shows bus.old) third result.third.is_free result.third.byte }
    ensures second_free { result.second.is_free ≡ (nat_le 2 (length_of opcode) && is_free (B.shows bus.old) second) }
    ensures third_free { result.third.is_free ≡ (nat_le 3 (length_of opcode) && is_free (B.shows bus.old) third) }
    ensures second_byte { result.second.byte < 256 }
    ensures third_byte { result.third.byte < 256 }
    ensures joined { Joined B.does bus.old (where_wanted (nat_le 2 (length_of opcode)) (access.Reads second result.second.byte) ++ where_wanted (nat_le 3 (length_of opcode)) (access.Reads third result.third.byte)) bus.new }
{
    let length = length_of(opcode);
    let second = take_where(bus, length >= 2, second);
    let third = take_where(bus, length >= 3, third);
    Rest { second, third }
}

/// Reads the bytes of the instruction at PC.
#[inline(always)]
#[tactic(auto, using(crate::proofs::Fetching::fetched_is, crate::proofs::Joining::joined_append), unfolding(gb_ops::specs::Accesses::fetch_log, crate::specs::Access::free_fetches))]
pub fn fetch<B: Bus>(bus: &mut B, processor: Processor) -> Fetched
    ensures view { B.shows bus.new ≡ B.shows bus.old }
    ensures bytes { fetched (B.shows bus.old) processor result.free ≡ result.bytes }
    ensures free { result.free ≡ free_fetches (B.shows bus.old) processor result.bytes }
    ensures in_range { is_bytes 3 result.free ≡ true }
    ensures joined { Joined B.does bus.old (fetch_log processor result.bytes) bus.new }
{
    let first = take(bus, processor.pc);
    let rest = fetch_rest(
        bus,
        first.byte,
        second_address(processor),
        third_address(processor),
    );
    Fetched {
        bytes: [first.byte, rest.second.byte, rest.third.byte],
        free: queue(first, queue(rest.second, queue(rest.third, [0, 0, 0]))),
    }
}

/// What an instruction read, and the bytes of it that were free, in order.
#[derive(Clone, Copy)]
pub struct LoadAnswer {
    pub loaded: Loaded,
    pub free: [u8; 2],
}

/// Makes the reads of an instruction.
#[inline(always)]
#[tactic(auto, using(crate::proofs::Fetching::nothing_is, crate::proofs::Fetching::byte_is, crate::proofs::Fetching::word_is), unfolding(gb_ops::specs::Accesses::load_log, crate::specs::Access::free_reads))]
pub fn load<B: Bus>(bus: &mut B, read: Read) -> LoadAnswer
    ensures view { B.shows bus.new ≡ B.shows bus.old }
    ensures values { loaded (B.shows bus.old) read result.free ≡ result.loaded }
    ensures free { result.free ≡ free_reads (B.shows bus.old) read result.loaded }
    ensures in_range { is_bytes 2 result.free ≡ true }
    ensures joined { Joined B.does bus.old (load_log read result.loaded) bus.new }
{
    match read {
        Read::Nothing => LoadAnswer {
            loaded: Loaded { low: 0, high: 0 },
            free: [0, 0],
        },
        Read::Byte(address) => {
            let low = take(bus, address);
            LoadAnswer {
                loaded: Loaded {
                    low: low.byte,
                    high: 0,
                },
                free: queue_two(low, [0, 0]),
            }
        }
        Read::Word(address) => {
            let low = take(bus, address);
            let high = take(bus, address.wrapping_add(1));
            LoadAnswer {
                loaded: Loaded {
                    low: low.byte,
                    high: high.byte,
                },
                free: queue_two(low, queue_two(high, [0, 0])),
            }
        }
    }
}

/// Makes the writes of an instruction.
#[inline(always)]
#[tactic(auto, unfolding(gb_ops::specs::Memory::stored, gb_ops::specs::Accesses::store_log))]
pub fn store<B: Bus>(bus: &mut B, write: Write)
    ensures view { B.shows bus.new ≡ stored (B.shows bus.old) write }
    ensures joined { Joined B.does bus.old (store_log write) bus.new }
{
    match write {
        Write::Nothing => {}
        Write::Byte(address, value) => bus.write(address, value),
        Write::Word(address, word) => {
            bus.write(address, (word % 256) as u8);
            bus.write(address.wrapping_add(1), (word / 256) as u8);
        }
        Write::Push(sp, word) => {
            bus.write(sp.wrapping_sub(1), (word / 256) as u8);
            bus.write(sp.wrapping_sub(2), (word % 256) as u8);
        }
    }
}
