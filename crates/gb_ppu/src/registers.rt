//! The picture's registers.

ghost use Rattle.std.specs.Prelude.{◌≡◌, ◌<◌};
ghost use Rattle.gb_ppu.specs.LcdRegisters.{mode_number};

use crate::control::is_on;
use crate::mode::Mode;
use crate::picture::Picture;

/// A register of the picture, FF40 to FF4B without FF46 (Pan Docs: Hardware Registers).
#[derive(Clone, Copy, PartialEq, Eq)]
pub enum LcdRegister {
    Lcdc,
    Stat,
    Scy,
    Scx,
    Ly,
    Lyc,
    Bgp,
    Obp0,
    Obp1,
    Wy,
    Wx,
}

impl Picture {
    ghost use Rattle.std.specs.Prelude.{◌≡◌};
    ghost use Rattle.gb_ppu.specs.WellFormed.{IsWellFormed};
    ghost use Rattle.gb_ppu.specs.LcdRegisters.{mode_number, stat_read, register_read, lcdc_written, register_written};

    /// What STAT reads as.
    #[tactic(auto, unfolding(crate::specs::LcdRegisters::stat_read))]
    fn stat_read(self) -> u8
        requires { IsWellFormed self }
        ensures { result ≡ stat_read self }
    {
        let is_equal = if self.line() == self.lyc { 4 } else { 0 };
        0x80 + self.stat + is_equal + number_of(self.mode())
    }

    /// What a register reads as.
    pub(crate) fn read(self, register: LcdRegister) -> u8
        requires { IsWellFormed self }
        ensures { result ≡ register_read register self }
    {
        match register {
            LcdRegister::Lcdc => self.lcdc,
            LcdRegister::Stat => self.stat_read(),
            LcdRegister::Scy => self.scy,
            LcdRegister::Scx => self.scx,
            LcdRegister::Ly => self.line(),
            LcdRegister::Lyc => self.lyc,
            LcdRegister::Bgp => self.bgp,
            LcdRegister::Obp0 => self.obp0,
            LcdRegister::Obp1 => self.obp1,
            LcdRegister::Wy => self.wy,
            LcdRegister::Wx => self.wx,
        }
    }

    /// The picture with LCDC written.
    #[tactic(auto, unfolding(crate::specs::LcdRegisters::lcdc_written))]
    fn lcdc_written(self, lcdc: u8) -> Picture
        requires { IsWellFormed self }
        ensures { result ≡ lcdc_written lcdc self }
    {
        let written = Picture { lcdc, ..self };
        if !is_on(lcdc) {
            return Picture {
                position: 0,
                window: None,
                shows_window: false,
                ..written
            };
        }
        if is_on(self.lcdc) {
            written
        } else {
            Picture {
                position: 0,
                ..written
            }
            .line_begun()
        }
    }

    /// The picture with a register written.
    pub(crate) fn written(self, register: LcdRegister, value: u8) -> Picture
        requires { IsWellFormed self }
        ensures { result ≡ register_written register value self }
    {
        match register {
            LcdRegister::Lcdc => self.lcdc_written(value),
            LcdRegister::Stat => Picture {
                stat: 8 * (value / 8 % 16),
                ..self
            },
            LcdRegister::Scy => Picture { scy: value, ..self },
            LcdRegister::Scx => Picture { scx: value, ..self },
            LcdRegister::Ly => self,
            LcdRegister::Lyc => Picture { lyc: value, ..self },
            LcdRegister::Bgp => Picture { bgp: value, ..self },
            LcdRegister::Obp0 => Picture {
                obp0: value,
                ..self
            },
            LcdRegister::Obp1 => Picture {
                obp1: value,
                ..self
            },
            LcdRegister::Wy => Picture { wy: value, ..self },
            LcdRegister::Wx => Picture { wx: value, ..self },
        }
    }
}

/// A mode's number in STAT.
fn number_of(mode: Mode) -> u8
    ensures value { result ≡ mode_number mode }
    ensures small { result < 4 }
{
    match mode {
        Mode::HBlank => 0,
        Mode::VBlank => 1,
        Mode::ObjectScan => 2,
        Mode::Drawing => 3,
    }
}
