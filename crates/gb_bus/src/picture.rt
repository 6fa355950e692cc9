//! The picture behind the bus.

ghost use Rattle.std.specs.Prelude.{◌≡◌, ◌<◌, ◌≤◌, ◌+◌, ◌%◌, true, bit_or, slice_set, IfSome, IsSome, IsNone};
ghost use Rattle.gb_ppu.specs.Below.gb_timer.Interrupts.{irq_bits};
ghost use Rattle.gb_ppu.specs.Control.{is_on};
ghost use Rattle.gb_ppu.specs.Picture.{line_of, mode_of, advanced, requested_in, IsNextDrawing};
ghost use Rattle.gb_ppu.specs.Requests.{request_bits};
ghost use Rattle.gb_bus.specs.Access as Access;
ghost use Rattle.gb_bus.specs.Screen as Screen;

use crate::memory::Memory;
use gb_ppu::control::is_on;
use gb_ppu::line::{HEIGHT, WIDTH, render_line};
use gb_ppu::mode::Mode;
use gb_ppu::registers::LcdRegister;

/// A screen that shows nothing.
#[tactic(auto, unfolding(crate::specs::Screen::blank))]
pub(crate) fn dark() -> [[u8; WIDTH]; HEIGHT]
    ensures { result ≡ Screen.blank }
{
    [[0; WIDTH]; HEIGHT]
}

impl Memory<'_> {
    /// Whether the picture uses video RAM.
    pub(crate) fn uses_video_ram(&self) -> bool
        ensures { result ≡ Access.uses_video_ram (mode_of self.now.picture) }
    {
        matches!(self.devices.ppu().mode(), Mode::Drawing)
    }

    /// Whether the picture uses OAM.
    pub(crate) fn uses_oam(&self) -> bool
        ensures { result ≡ Access.uses_oam (mode_of self.now.picture) }
    {
        matches!(self.devices.ppu().mode(), Mode::ObjectScan | Mode::Drawing)
    }

    /// What a write to the picture does to the screen.
    fn write_screen(&mut self, register: LcdRegister, value: u8)
        ensures { self.new ≡ record self.old { screen = Access.screen_after register value self.old.screen } }
    {
        if register == LcdRegister::Lcdc && !is_on(value) {
            *self.screen = dark();
        }
    }

    /// A write to a register of the picture.
    #[tactic(auto, using(crate::proofs::Requests::few_bits), unfolding(crate::specs::Access::lcd_written))]
    pub(crate) fn write_lcd(&mut self, register: LcdRegister, value: u8)
        ensures { self.new ≡ Access.lcd_written register self.old value }
    {
        let mut ppu = self.devices.ppu();
        let irqs = ppu.write(register, value);
        self.devices.set_ppu(ppu);
        self.request(irqs);
        self.write_screen(register, value);
    }

    /// The picture goes on for n M-cycles; the screen stays.
    #[tactic(auto, using(crate::proofs::Requests::few_bits))]
    fn advance_picture(&mut self, n: u8)
        ensures passed { self.new ≡ record self.old { picture = advanced n self.old.picture; requests = bit_or self.old.requests (request_bits (requested_in n self.old.picture)) } }
        ensures moved { is_on self.old.picture.lcdc ≡ true → (advanced n self.old.picture).position ≡ (self.old.picture.position + n) % 17556 }
        ensures on { (advanced n self.old.picture).lcdc ≡ self.old.picture.lcdc }
        ensures small { self.old.requests < 32 }
    {
        let mut ppu = self.devices.ppu();
        let irqs = ppu.advance(n);
        self.devices.set_ppu(ppu);
        self.request(irqs);
    }

    /// The shades of the line at which the picture stands.
    #[tactic(auto, using(crate::proofs::Copying::in_a_row), unfolding(crate::specs::Screen::line_drawn))]
    fn drawn(&self) -> [u8; WIDTH]
        requires { line_of self.now.picture < 144 }
        ensures { result ≡ Screen.line_drawn self.now.picture self.now.video_ram self.now.oam }
    {
        let mut shades = [0; WIDTH];
        let ppu = self.devices.ppu();
        let scene = ppu.scene(&self.video_ram, &self.oam);
        render_line(&scene, ppu.line(), &mut shades);
        shades
    }

    /// Draws the line at which the picture stands.
    #[inline(never)]
    fn draw_line(&mut self)
        requires { line_of self.old.picture < 144 }
        ensures { self.new ≡ record self.old { screen = slice_set self.old.screen (line_of self.old.picture) (Screen.line_drawn self.old.picture self.old.video_ram self.old.oam) } }
    {
        let line = usize::from(self.devices.ppu().line());
        let shades = self.drawn();
        self.screen[line] = shades;
    }

    /// The M-cycles until the next line is drawn, where they are so few.
    fn drawing_within(&self, most: u8) -> Option<u8>
        ensures next { IfSome result (IsNextDrawing self.now.picture.position) }
        ensures on { IsSome result → is_on self.now.picture.lcdc ≡ true }
        ensures few { IfSome result (λ way. way ≤ most) }
        ensures none { IsNone result → Screen.screened most self.now.picture self.now.video_ram self.now.oam self.now.screen ≡ self.now.screen }
    {
        let ppu = self.devices.ppu();
        let way = ppu.until_drawing()?;
        if way <= u16::from(most) {
            Some(way as u8)
        } else {
            None
        }
    }

    /// The picture goes on until a line is drawn, or for so many M-cycles. Answers how many passed.
    fn pass_until_drawing(&mut self, most: u8) -> u8
        requires { 0 < most }
        ensures some { 0 < result }
        ensures most { result ≤ most }
        ensures passed { self.new ≡ Screen.pictured result self.old }
        ensures small { self.old.requests < 32 }
    {
        match self.drawing_within(most) {
            Some(way) => {
                self.advance_picture(way);
                self.draw_line();
                way
            }
            None => {
                self.advance_picture(most);
                most
            }
        }
    }

    /// The picture goes on for so many M-cycles; lines are drawn as their mode 3 begins.
    #[tactic(auto, using(crate::proofs::Screens::pictures))]
    pub(crate) fn pass_picture(&mut self, cycles: u8)
        ensures { self.new ≡ Screen.pictured cycles self.old }
    {
        let mut left = cycles;
        while left > 0 {
            left -= self.pass_until_drawing(left);
        }
    }
}
