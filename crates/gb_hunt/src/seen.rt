//! What was seen: code that ran, and parts of the picture.

use gb_ppu::line::{HEIGHT, WIDTH};
use std::alloc::{AllocError, Global};

/// The addresses 8000 to FFFF, whose flags come before those of ROM.
const RAM: usize = 0x8000;

/// The flags of parts of the picture: a power of two.
const PARTS: usize = 0x10000;

/// The tiles in a row of the screen.
const COLUMNS: usize = WIDTH / 8;

/// A place that hasn't run.
const NEVER: u8 = 0;

/// A place that is nothing new any more. A greater number is a wanted place that counts as new in one frame fewer.
const RAN: u8 = 1;

/// A wanted place that hasn't run: it counts as new in 32 frames. With more, the leads would all be at places that run in
/// every frame.
const WANTED: u8 = RAN + 32;

/// A number for each byte of ROM and each address above it at which an instruction may begin, and flags of parts of the picture.
#[derive(Drop)]
pub(crate) struct Seen {
    places: Vec<u8>,
    parts: Vec<u8>,
    /// Whether there was something new since it was asked last.
    is_fresh: bool,
    /// Whether a wanted place ran since then.
    is_wanted_met: bool,
}

/// Where a place's number is; below 8000 with the ROM bank that is shown there.
#[inline(always)]
fn index_of(bank: u16, address: u16) -> usize {
    if address < 0x8000 {
        RAM + 0x4000 * usize::from(bank) + usize::from(address % 0x4000)
    } else {
        usize::from(address - 0x8000)
    }
}

impl Seen {
    /// Nothing was seen yet, of a ROM of so many bytes.
    pub(crate) fn new(alloc: Global, rom_size: usize) -> Result<Seen, AllocError> {
        Ok(Seen {
            places: vec![in alloc; 0; rom_size.saturating_add(RAM)]?,
            parts: vec![in alloc; 0; PARTS]?,
            is_fresh: false,
            is_wanted_met: false,
        })
    }

    /// Code at a place is worth more than other code.
    pub(crate) fn want(&mut self, bank: u16, address: u16) {
        if let Some(number) = self.places.get_mut(index_of(bank, address))
            && *number == NEVER
        {
            *number = WANTED;
        }
    }

    /// An instruction at an address, with this ROM bank shown there.
    #[inline(always)]
    pub(crate) fn visit(&mut self, bank: u16, address: u16) {
        let index = index_of(bank, address);
        if let Some(number) = self.places.get_mut(index)
            && *number != RAN
        {
            let is_wanted = *number != NEVER;
            if is_wanted && self.is_wanted_met {
                return;
            }
            *number = if is_wanted { *number - 1 } else { RAN };
            self.is_wanted_met |= is_wanted;
            self.is_fresh = true;
        }
    }

    /// A part of the picture, by a number that its pixels and its place make.
    fn look_at(&mut self, part: u32) -> bool {
        match self.parts.get_mut((part >> 16) as usize) {
            Some(flag) => {
                let is_new = *flag == 0;
                *flag = 1;
                is_new
            }
            None => false,
        }
    }

    /// Eight lines of a picture, the first of which is the line `top`. Answers whether a tile of them is new.
    fn look_at_lines(&mut self, top: u32, lines: &[[u8; WIDTH]]) -> bool {
        let mut sums = [0u32; COLUMNS];
        for line in lines {
            for (x, shade) in line.iter().enumerate() {
                if let Some(sum) = sums.get_mut(x / 8) {
                    *sum = sum.wrapping_mul(0x0100_0193) ^ u32::from(*shade);
                }
            }
        }
        let mut is_new = false;
        let mut place = top;
        for sum in &sums {
            place = place.wrapping_add(0x9E37_79B9);
            let part = (*sum ^ place).wrapping_mul(0x85EB_CA6B);
            is_new |= self.look_at(part ^ (part >> 13));
        }
        is_new
    }

    /// A picture. Answers whether a tile of it is new where it is.
    pub(crate) fn look(&mut self, screen: &[[u8; WIDTH]; HEIGHT]) -> bool {
        let mut is_new = false;
        let mut top = 0u32;
        for lines in screen.chunks(8) {
            is_new |= self.look_at_lines(top, lines);
            top = top.wrapping_add(0x0001_0001);
        }
        is_new
    }

    /// How many places were seen.
    pub(crate) fn places(&self) -> usize {
        let ran = |number: &&u8| **number != NEVER && **number != WANTED;
        self.places.iter().filter(ran).count()
    }

    /// Whether code ran that hadn't run before, or that is wanted, since this was asked last.
    pub(crate) fn take_fresh(&mut self) -> bool {
        let is_fresh = self.is_fresh;
        self.is_fresh = false;
        self.is_wanted_met = false;
        is_fresh
    }
}
