//! The picture's state, and its course M-cycle by M-cycle.

ghost use Rattle.std.specs.Prelude.{◌≡◌, ◌<◌, ◌≤◌, ◌/◌, ◌||◌, ◌&&◌};
ghost use Rattle.std.specs.Option.{ForSome};
ghost use Rattle.gb_ppu.specs.Window.{counted, kept, compared};

use crate::control::{has_background, has_bit, has_window, is_on};
use crate::line::HEIGHT;
use crate::mode::Mode;

/// M-cycles of a line.
pub const LINE_CYCLES: u16 = 114;

/// Lines of a frame, the 10 of VBlank among them.
pub const LINES: u16 = 154;

/// M-cycles of a frame, 17,556.
pub const FRAME_CYCLES: u16 = LINES * LINE_CYCLES;

/// Lines that are drawn, those before VBlank.
pub(crate) const DRAWN_LINES: u16 = HEIGHT as u16;

/// Where the first line of VBlank begins.
const VBLANK: u16 = DRAWN_LINES * LINE_CYCLES;

/// The picture's registers, and where it stands.
#[derive(Clone, Copy)]
pub struct Picture {
    pub lcdc: u8,
    /// Bits 6 to 3 as written; the others 0.
    pub stat: u8,
    pub scy: u8,
    pub scx: u8,
    pub lyc: u8,
    pub bgp: u8,
    pub obp0: u8,
    pub obp1: u8,
    pub wy: u8,
    pub wx: u8,
    /// M-cycles since the frame began.
    pub position: u16,
    /// The lines of this frame that showed the window so far, from the line on at whose start LY equalled WY.
    pub window: Option<u8>,
    /// Whether this line shows the window.
    pub shows_window: bool,
}

/// Interrupts that the picture requests.
#[derive(Clone, Copy)]
pub struct Requests {
    pub vblank: bool,
    pub stat: bool,
}

/// What M-cycles made of a picture, and what they requested.
#[derive(Clone, Copy)]
pub(crate) struct Passed {
    pub picture: Picture,
    pub requests: Requests,
}

impl Requests {
    ghost use Rattle.std.specs.Prelude.{◌≡◌};
    ghost use Rattle.gb_ppu.specs.Picture.{nothing, both};

    pub(crate) const NOTHING: Requests = Requests {
        vblank: false,
        stat: false,
    };

    pub(crate) fn both(self, other: Requests) -> Requests
        ensures { result ≡ both self other }
    {
        Requests {
            vblank: self.vblank || other.vblank,
            stat: self.stat || other.stat,
        }
    }
}

/// The window's own line as a line begins, given whether the line before showed the window.
fn counted(shown: bool, window: Option<u8>) -> Option<u8>
    requires { ForSome window (λ n. n < 255) }
    ensures { result ≡ counted shown window }
{
    match window {
        Some(n) if shown => Some(n + 1),
        _ => window,
    }
}

/// A frame begins without a window.
fn kept(is_first: bool, window: Option<u8>) -> Option<u8>
    ensures { result ≡ kept is_first window }
{
    if is_first { None } else { window }
}

/// From the first line on at whose start LY equals WY there is a window, at its line 0.
fn compared(is_equal: bool, window: Option<u8>) -> Option<u8>
    ensures { result ≡ compared is_equal window }
{
    match window {
        None if is_equal => Some(0),
        _ => window,
    }
}

impl Picture {
    ghost use Rattle.std.specs.Option.{ForSome};
    ghost use Rattle.std.specs.Prelude.{◌≡◌, ◌<◌, ◌≤◌, ◌/◌, true};
    ghost use Rattle.gb_ppu.specs.Control.{is_on};
    ghost use Rattle.gb_ppu.specs.Picture.{line_of, mode_at, mode_of, begins_drawing, line_begun, drawing_begun, arrived, ticked, chooses, signal, rises, requested};
    ghost use Rattle.gb_ppu.specs.WellFormed.{IsWellFormed};

    /// LY.
    #[tactic(auto, unfolding(crate::specs::Picture::line_of))]
    pub(crate) fn line(self) -> u8
        requires { IsWellFormed self }
        ensures value { result ≡ line_of self }
        ensures small { result < LINES }
    {
        (self.position / LINE_CYCLES) as u8
    }

    /// The mode, 0 while the LCD is off.
    #[tactic(auto, unfolding(crate::specs::Picture::mode_of, crate::specs::Picture::mode_at))]
    pub(crate) fn mode(self) -> Mode
        ensures { result ≡ mode_of self }
    {
        if !is_on(self.lcdc) {
            return Mode::HBlank;
        }
        if self.position / LINE_CYCLES >= DRAWN_LINES {
            return Mode::VBlank;
        }
        match self.position % LINE_CYCLES {
            0..20 => Mode::ObjectScan,
            20..63 => Mode::Drawing,
            _ => Mode::HBlank,
        }
    }

    /// Whether mode 3 of a line begins here.
    #[tactic(auto, unfolding(crate::specs::Picture::begins_drawing))]
    fn begins_drawing(self) -> bool
        ensures { result ≡ begins_drawing self.position }
    {
        self.position % LINE_CYCLES == 20 && self.position / LINE_CYCLES < DRAWN_LINES
    }

    /// A line begins.
    #[tactic(auto, unfolding(crate::specs::Picture::line_begun, crate::specs::Picture::line_of))]
    pub(crate) fn line_begun(self) -> Picture
        requires within { self.position < FRAME_CYCLES }
        requires counted { ForSome self.window (λ n. n < 255) }
        ensures { result ≡ line_begun self }
    {
        let line = (self.position / LINE_CYCLES) as u8;
        let counted = counted(self.shows_window, self.window);
        Picture {
            window: compared(line == self.wy, kept(line == 0, counted)),
            shows_window: false,
            ..self
        }
    }

    /// Mode 3 of a line begins.
    #[tactic(auto, unfolding(crate::specs::Picture::drawing_begun))]
    fn drawing_begun(self) -> Picture
        ensures { result ≡ drawing_begun self }
    {
        let is_chosen = has_background(self.lcdc) && has_window(self.lcdc);
        Picture {
            shows_window: is_chosen && self.wx <= 166 && self.window.is_some(),
            ..self
        }
    }

    /// Whether STAT's source for the mode is chosen.
    fn chooses(self, mode: Mode) -> bool
        ensures { result ≡ chooses self.stat mode }
    {
        match mode {
            Mode::HBlank => has_bit(3, self.stat),
            Mode::VBlank => has_bit(4, self.stat),
            Mode::ObjectScan => has_bit(5, self.stat),
            Mode::Drawing => false,
        }
    }

    /// The OR of STAT's sources; mostly none is chosen.
    #[tactic(auto, using(crate::proofs::Sourceless::sourceless), unfolding(crate::specs::Picture::signal))]
    fn signal(self) -> bool
        requires { IsWellFormed self }
        ensures { result ≡ signal self }
    {
        if !is_on(self.lcdc) {
            return false;
        }
        if self.stat == 0 {
            return false;
        }
        has_bit(6, self.stat) && self.line() == self.lyc || self.chooses(self.mode())
    }

    /// What happens at the position that was reached.
    #[tactic(auto, unfolding(crate::specs::Picture::arrived))]
    fn arrived(self) -> Picture
        requires within { self.position < FRAME_CYCLES }
        requires counted { ForSome self.window (λ n. n < 255) }
        ensures { result ≡ arrived self }
    {
        if self.position % LINE_CYCLES == 0 {
            self.line_begun()
        } else if self.begins_drawing() {
            self.drawing_begun()
        } else {
            self
        }
    }

    /// One M-cycle.
    #[tactic(auto, unfolding(crate::specs::Picture::ticked))]
    fn ticked(self) -> Picture
        requires { IsWellFormed self }
        ensures { result ≡ ticked self }
    {
        if !is_on(self.lcdc) {
            return self;
        }
        let position = (self.position + 1) % FRAME_CYCLES;
        Picture { position, ..self }.arrived()
    }

    /// Whether STAT's request comes as this picture becomes another.
    #[tactic(auto, unfolding(crate::specs::Picture::rises))]
    pub(crate) fn rises(self, new: Picture) -> bool
        requires old { IsWellFormed self }
        requires new { IsWellFormed new }
        ensures { result ≡ rises self new }
    {
        !self.signal() && new.signal()
    }

    /// One M-cycle, with what it requests.
    #[tactic(auto, unfolding(crate::specs::Picture::requested), using(crate::proofs::WellFormed::well_formed))]
    pub(crate) fn tick(self) -> Passed
        requires { IsWellFormed self }
        ensures picture { result.picture ≡ ticked self }
        ensures requests { result.requests ≡ requested self }
    {
        let next = self.ticked();
        let requests = Requests {
            vblank: is_on(self.lcdc) && next.position == VBLANK,
            stat: self.rises(next),
        };
        Passed {
            picture: next,
            requests,
        }
    }
}
