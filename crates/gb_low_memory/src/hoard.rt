//! All addresses that the process may have, kept from everybody else, and the stack's before them.

use std::alloc::{AllocError, Global};

/// The most blocks that are kept.
const MOST: usize = 262_144;

/// The largest block that is asked for is 2 to this power.
const LARGEST: u32 = 46;

/// Sizes up to this one are asked for one by one.
const SMALL: usize = 1_280;

/// An allocator's sizes are multiples of this one.
const GRAIN: usize = 16;

/// Bytes of the stack that are used before all addresses are taken.
const STACK: usize = 1_048_576;

/// Uses `STACK` bytes of the stack, so that they are there when it can't grow any more: it needs the addresses below it.
/// The answer is 1 where both places are the same; that neither is known beforehand keeps the array from being left out.
pub fn use_stack(written: usize, read: usize) -> u8 {
    let mut room = [0; STACK];
    room[written % STACK] = 1;
    room[read % STACK]
}

/// Blocks that are never written, so that they take addresses and hardly any memory.
#[derive(Drop)]
pub struct Hoard {
    alloc: Global,
    blocks: Vec<Vec<u8>>,
}

impl Hoard {
    /// A hoard without blocks, and with room for all of them.
    pub fn new(alloc: Global) -> Result<Hoard, AllocError> {
        Ok(Hoard {
            alloc,
            blocks: Vec::with_capacity(alloc, MOST)?,
        })
    }

    /// Takes one block of this size, where it is given.
    fn take(&mut self, size: usize) -> bool {
        if self.blocks.len() >= MOST {
            return false;
        }
        match Vec::with_capacity(self.alloc, size) {
            Ok(block) => self.blocks.push(block).is_ok(),
            Err(_) => false,
        }
    }

    /// Takes blocks of this size until one is refused.
    fn take_each(&mut self, size: usize) {
        for _ in 0..MOST {
            if !self.take(size) {
                break;
            }
        }
    }

    /// Takes blocks of the largest size, then of half of it, and so on down to single bytes; and then of each small size,
    /// since an allocator may keep small blocks for whoever asks for that very size.
    pub fn take_all(&mut self) {
        for halvings in 0..=LARGEST {
            self.take_each(1 << (LARGEST - halvings));
        }
        for number in 1..=SMALL / GRAIN {
            self.take_each(number * GRAIN);
        }
    }

    /// Whether even a single byte is refused.
    pub fn is_complete(&self) -> bool {
        Vec::<u8>::with_capacity(self.alloc, 1).is_err()
    }
}
