//! Keys as a player holds them.

use rand_core::{Rng, SeedableRng};
use rand_xoshiro::Xoshiro256PlusPlus;

const A: u8 = 0x01;

const B: u8 = 0x02;

const SELECT: u8 = 0x04;

const START: u8 = 0x08;

/// How long keys are held: the greatest number of frames of a press of a button, of a direction, and of no key.
#[derive(Clone, Copy)]
struct Tempo {
    button: u64,
    direction: u64,
    gap: u64,
}

/// Short taps, presses as in play, and long ones.
const TEMPOS: [Tempo; 4] = [
    Tempo {
        button: 3,
        direction: 4,
        gap: 4,
    },
    Tempo {
        button: 12,
        direction: 40,
        gap: 12,
    },
    Tempo {
        button: 6,
        direction: 12,
        gap: 6,
    },
    Tempo {
        button: 30,
        direction: 90,
        gap: 60,
    },
];

/// A player: which keys are held, and how long they still are.
#[derive(Drop)]
pub(crate) struct Presses {
    random: Xoshiro256PlusPlus,
    tempo: Tempo,
    keys: u8,
    left: u64,
}

impl Presses {
    /// A player whose keys the seed determines.
    pub(crate) fn new(seed: u64) -> Presses {
        Presses {
            random: Xoshiro256PlusPlus::seed_from_u64(seed),
            tempo: TEMPOS[0],
            keys: 0,
            left: 0,
        }
    }

    /// A number below `most`, and 0 where that is 0.
    pub(crate) fn below(&mut self, most: u64) -> u64 {
        if most == 0 {
            0
        } else {
            self.random.next_u64() % most
        }
    }

    /// Another tempo, with no key held.
    pub(crate) fn begin(&mut self) {
        let chosen = self.below(4);
        self.tempo = TEMPOS.get(chosen as usize).copied().unwrap_or(TEMPOS[0]);
        self.keys = 0;
        self.left = self.below(4);
    }

    /// A direction.
    fn direction(&mut self) -> u8 {
        match self.below(4) {
            0 => 0x10,
            1 => 0x20,
            2 => 0x40,
            _ => 0x80,
        }
    }

    /// The next press: its keys, and the most frames that it is held.
    fn press(&mut self) -> (u8, u64) {
        let Tempo {
            button,
            direction,
            ..
        } = self.tempo;
        match self.below(16) {
            0 | 1 | 2 => (A, button),
            3 | 4 => (B, button),
            5 | 6 => (START, button),
            7 => (SELECT, button),
            8 => (self.direction() | A, direction),
            9 => (self.direction() | B, direction),
            _ => (self.direction(), direction),
        }
    }

    /// The keys of the next frame.
    pub(crate) fn next(&mut self) -> u8 {
        if self.left == 0 {
            if self.keys != 0 && self.below(4) != 0 {
                self.keys = 0;
                self.left = self.below(self.tempo.gap).saturating_add(1);
            } else {
                let (keys, most) = self.press();
                self.keys = keys;
                self.left = self.below(most).saturating_add(2);
            }
        }
        self.left = self.left.saturating_sub(1);
        self.keys
    }
}
