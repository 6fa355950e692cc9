//! The picture unit, as the memory bus drives it.

ghost use Rattle.std.specs.Prelude.{◌≡◌, ◌<◌};
ghost use Rattle.gb_ppu.specs.Requests.{request_bits};
ghost use Rattle.gb_ppu.specs.Picture.{IsNextDrawing};
ghost use Rattle.gb_timer.specs.Interrupts.{irq_bits};

use crate::control::is_on;
use crate::course::{advance, is_quiet, quiet_at};
use crate::mode::Mode;
use crate::picture::{DRAWN_LINES, FRAME_CYCLES, LINE_CYCLES, LINES, Picture, Requests};
use crate::registers::LcdRegister;
use crate::scene::{OAM, Scene, VIDEO_RAM};
use crate::silence::silent_from;
use bitflags::Flags;
use gb_timer::irqs::Irqs;
use std::marker::Model;

/// Where mode 3 of the last drawn line begins.
const LAST_DRAWING: u16 = (DRAWN_LINES - 1) * LINE_CYCLES + 20;

/// The picture: its registers, and where in the frame it stands.
#[derive(Clone, Copy)]
pub struct Ppu {
    picture: Picture,
}

impl Model for Ppu {
    ghost use Rattle.gb_ppu.specs.declared.picture.Picture.{Picture};
    ghost use Rattle.gb_ppu.specs.Frames.{IsFramed};
    ghost use Rattle.gb_ppu.specs.WellFormed.{IsWellFormed};

    ghost Value = { Picture };

    ghost view = { λ s. s.picture };

    ghost inverse = { λ p. record { picture = p } };

    ghost invariant = { λ s. IsWellFormed s.picture × IsFramed s.picture };
}

/// The interrupts that were requested.
fn irqs_of(requests: Requests) -> Irqs
    ensures { irq_bits result ≡ request_bits requests }
{
    let mut irqs = Irqs::empty();
    if requests.vblank {
        irqs.insert(Irqs::VBLANK);
    }
    if requests.stat {
        irqs.insert(Irqs::STAT);
    }
    irqs
}

impl Ppu {
    ghost use Rattle.std.specs.Prelude.{◌≡◌, ◌<◌, ◌+◌, ◌%◌, true, false, IfSome, IsSome, ◌↔◌};
    ghost use Rattle.gb_timer.specs.Interrupts.{irq_bits};
    ghost use Rattle.gb_ppu.specs.Control.{is_on};
    ghost use Rattle.gb_ppu.specs.Picture.{advanced, requested_in, line_of, mode_of, IsNextDrawing};
    ghost use Rattle.gb_ppu.specs.LcdRegisters.{register_read, register_written, requested_by};
    ghost use Rattle.gb_ppu.specs.Requests.{request_bits};
    ghost use Rattle.gb_ppu.specs.SameRegisters.{HasSameRegisters};
    ghost use Rattle.gb_ppu.specs.WellFormed.{IsWellFormed};
    ghost use Rattle.gb_ppu.specs.PowerUp.{power_up};
    ghost use Rattle.gb_ppu.specs.QuietCycles.{IsQuietFor, IsSilentFor};
    ghost use Rattle.gb_ppu.specs.Seen.{seen, seen_by};
    ghost use Rattle.gb_ppu.specs.Frames.{IsFramed, IsWindowLine};

    /// The picture at power-up: all registers 00 but LCDC 91 and BGP FC (Pan Docs: Power-Up Sequence), at the start
    /// of a frame (own).
    pub fn new() -> Ppu
        ensures { result ≡ power_up }
    {
        Ppu {
            picture: Picture {
                lcdc: 0x91,
                stat: 0,
                scy: 0,
                scx: 0,
                lyc: 0,
                bgp: 0xFC,
                obp0: 0,
                obp1: 0,
                wy: 0,
                wx: 0,
                position: 0,
                window: Some(0),
                shows_window: false,
            },
        }
    }

    /// Lets n M-cycles pass. Answers what they request (Pan Docs: Rendering, LCD Status).
    #[inline]
    pub fn advance(&mut self, n: u8) -> Irqs
        ensures picture { self.new ≡ advanced n self.old }
        ensures requests { irq_bits result ≡ request_bits (requested_in n self.old) }
        ensures registers { HasSameRegisters self.old self.new }
        ensures moved { is_on self.old.lcdc ≡ true → self.new.position ≡ (self.old.position + n) % FRAME_CYCLES }
    {
        irqs_of(self.pass(n))
    }

    /// Lets n M-cycles pass: at once where nothing but the position changes.
    #[inline]
    #[tactic(auto, using(crate::proofs::Courses::quiet))]
    fn pass(&mut self, n: u8) -> Requests
        ensures picture { self.new ≡ advanced n self.old }
        ensures requests { result ≡ requested_in n self.old }
        ensures formed { IsWellFormed self.old }
    {
        if is_quiet(&self.picture, n) {
            self.picture.position += u16::from(n);
            return Requests::NOTHING;
        }
        self.pass_changes(n)
    }

    /// Lets n M-cycles pass, wherever they lead; kept out of the callers of `pass`.
    #[inline(never)]
    fn pass_changes(&mut self, n: u8) -> Requests
        ensures picture { self.new ≡ advanced n self.old }
        ensures requests { result ≡ requested_in n self.old }
    {
        let passed = advance(self.picture, n);
        self.picture = passed.picture;
        passed.requests
    }

    /// So many M-cycles pass in which nothing but the position changes; more may.
    pub fn quiet(&self) -> u16
        ensures quiet { IsQuietFor result self.now }
        ensures formed { IsWellFormed self.now }
    {
        if is_on(self.picture.lcdc) {
            quiet_at(self.picture.position)
        } else {
            u16::MAX
        }
    }

    /// So many M-cycles pass in which nothing is requested and no line is drawn; more may.
    #[tactic(auto, using(crate::proofs::Silent::off_silent))]
    pub fn silent(&self) -> u16
        ensures silent { IsSilentFor result self.now }
        ensures formed { IsWellFormed self.now }
    {
        if is_on(self.picture.lcdc) {
            silent_from(&self.picture)
        } else {
            u16::MAX
        }
    }

    /// What a register reads as (Pan Docs: LCD Control, LCD Status).
    pub fn read(&self, register: LcdRegister) -> u8
        ensures { result ≡ register_read register self.now }
    {
        self.picture.read(register)
    }

    /// Writes a register. Answers STAT's request where the write raises it (own). A write of LY does nothing.
    #[tactic(auto, unfolding(crate::specs::LcdRegisters::requested_by))]
    pub fn write(&mut self, register: LcdRegister, value: u8) -> Irqs
        ensures picture { self.new ≡ register_written register value self.old }
        ensures requests { irq_bits result ≡ request_bits (requested_by self.old self.new) }
    {
        let old = self.picture;
        self.picture = old.written(register, value);
        irqs_of(Requests {
            vblank: false,
            stat: old.rises(self.picture),
        })
    }

    /// The mode, 0 while the LCD is off.
    pub fn mode(&self) -> Mode
        ensures { result ≡ mode_of self.now }
    {
        self.picture.mode()
    }

    /// LY, 0 while the LCD is off.
    #[tactic(auto, unfolding(crate::specs::Picture::line_of))]
    pub fn line(&self) -> u8
        ensures value { result ≡ line_of self.now }
        ensures small { result < LINES }
        ensures off { is_on self.now.lcdc ≡ false → result ≡ 0 }
    {
        self.picture.line()
    }

    /// Whether the LCD is on.
    pub fn is_on(&self) -> bool
        ensures { result ≡ is_on self.now.lcdc }
    {
        is_on(self.picture.lcdc)
    }

    /// The window's own line, for the line that the picture stands at: none until LY equals WY at a line's start in this
    /// frame, then the number of earlier lines of the frame that showed the window, whatever was written meanwhile
    /// (Pan Docs: Window; own: whether a line shows it is decided as its mode 3 begins).
    pub fn window_line(&self) -> Option<u8>
        ensures value { result ≡ self.now.window }
        ensures framed { IsFramed self.now }
        ensures counted { IsWindowLine self.now result }
    {
        self.picture.window
    }

    /// What a line is drawn from whose mode 3 begins now.
    pub fn scene<'a>(&self, video_ram: &'a [u8; VIDEO_RAM], oam: &'a [u8; OAM]) -> Scene<'a>
        ensures { seen result ≡ seen_by self.now video_ram.now oam.now }
    {
        let picture = self.picture;
        Scene {
            video_ram,
            oam,
            lcdc: picture.lcdc,
            scx: picture.scx,
            scy: picture.scy,
            wx: picture.wx,
            bgp: picture.bgp,
            obp0: picture.obp0,
            obp1: picture.obp1,
            window_line: self.window_line(),
        }
    }

    /// M-cycles until the next line begins its mode 3, and so is drawn. None while the LCD is off.
    pub fn until_drawing(&self) -> Option<u16>
        ensures on { IsSome result ↔ (is_on self.now.lcdc ≡ true) }
        ensures next { IfSome result (IsNextDrawing self.now.position) }
    {
        if is_on(self.picture.lcdc) {
            Some(until_drawing(self.picture.position))
        } else {
            None
        }
    }
}

/// M-cycles from a position until mode 3 of a line begins for the next time.
fn until_drawing(position: u16) -> u16
    requires { position < FRAME_CYCLES }
    ensures { IsNextDrawing position result }
{
    let column = position % LINE_CYCLES;
    if position >= LAST_DRAWING {
        FRAME_CYCLES - position + 20
    } else if column < 20 {
        20 - column
    } else {
        LINE_CYCLES - column + 20
    }
}
