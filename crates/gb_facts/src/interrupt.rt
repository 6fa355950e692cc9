//! The five interrupts.

ghost use Rattle.std.specs.Prelude.{◌<◌};

/// An interrupt.
#[derive(Clone, Copy, PartialEq, Eq)]
pub enum Interrupt {
    VBlank,
    Lcd,
    Timer,
    Serial,
    Joypad,
}

/// All of them, by their bits.
pub const INTERRUPTS: &[Interrupt] = &[
    Interrupt::VBlank,
    Interrupt::Lcd,
    Interrupt::Timer,
    Interrupt::Serial,
    Interrupt::Joypad,
];

impl Interrupt {
    /// Its bit in IE and IF.
    pub fn bit(self) -> u8
        ensures { result < 5 }
    {
        match self {
            Interrupt::VBlank => 0,
            Interrupt::Lcd => 1,
            Interrupt::Timer => 2,
            Interrupt::Serial => 3,
            Interrupt::Joypad => 4,
        }
    }

    /// The address of its handler.
    pub fn vector(self) -> u16 {
        match self {
            Interrupt::VBlank => 0x40,
            Interrupt::Lcd => 0x48,
            Interrupt::Timer => 0x50,
            Interrupt::Serial => 0x58,
            Interrupt::Joypad => 0x60,
        }
    }
}
