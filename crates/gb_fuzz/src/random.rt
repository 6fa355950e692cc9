//! Numbers that look random, the same in each run.

ghost use Rattle.std.specs.Prelude.{◌<◌};

/// Numbers one after the other (xorshift64*).
#[derive(Drop)]
pub struct Random {
    state: u64,
}

impl Random {
    /// The numbers that begin here.
    pub fn new(seed: u64) -> Random {
        Random { state: seed | 1 }
    }

    pub fn next(&mut self) -> u64 {
        let mut state = self.state;
        state ^= state >> 12;
        state ^= state << 25;
        state ^= state >> 27;
        self.state = state;
        state.wrapping_mul(0x2545_F491_4F6C_DD1D)
    }

    /// One of the numbers below this one.
    pub fn below(&mut self, count: usize) -> usize
        requires { 0 < count }
        ensures { result < count }
    {
        (self.next() >> 16) as usize % count
    }

    pub fn byte(&mut self) -> u8 {
        ((self.next() >> 32) % 256) as u8
    }

    /// Bytes that stand at the ends of what fields may hold.
    fn edge(&mut self) -> u8 {
        match self.below(10) {
            0 => 0x00,
            1 => 0x01,
            2 => 0x02,
            3 => 0x04,
            4 => 0x05,
            5 => 0x10,
            6 => 0x7F,
            7 => 0x80,
            8 => 0xA1,
            _ => 0xFF,
        }
    }

    /// What a byte becomes: a bit flipped, one more or less, at the end of a range, or any.
    pub fn changed(&mut self, byte: u8) -> u8 {
        match self.below(5) {
            0 => byte ^ (1 << self.below(8)),
            1 => byte.wrapping_add(1),
            2 => byte.wrapping_sub(1),
            3 => self.edge(),
            _ => self.byte(),
        }
    }
}
