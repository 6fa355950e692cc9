//! The picture unit: its registers, its modes and requests M-cycle by M-cycle, and its lines (Pan Docs: Rendering).
//!
//! A bus drives `ppu::Ppu`. `Ppu::advance` is n single M-cycles and answers what they request; `Ppu::window_line` is the
//! number of earlier lines of the frame that showed the window, whatever was written meanwhile. `line::render_line` gives
//! each pixel of a line its shade (`pixels`), and says which object is in front there (`front`).
//!
//! Read `picture` (the state and one M-cycle), `course` (several), `silence` (how long
//! nothing is requested or drawn), `registers` and `ppu`; then `lanes` (rows of tiles and
//! palettes, eight or sixteen pixels at once), `maps` and `background`, `objects` and `front` (the objects in front), `mixing`
//! and `line` (a whole line). The definitions are in `specs/Picture.antt`, `Frames.antt` (the window's own line),
//! `LcdRegisters.antt`, `Pixel.antt`, `FrontObject.antt` (the object in front) and `FrontLine.antt` (what lanes hold of it).
#![tactic(auto)]

mod background;
pub mod control;
mod course;
mod front;
pub mod lanes;
pub mod line;
mod maps;
mod mixing;
pub mod mode;
pub mod objects;
pub mod picture;
pub mod ppu;
pub mod registers;
pub mod scene;
mod silence;

pub use mode::Mode;
pub use objects::Object;
pub use picture::{Picture, Requests};
pub use ppu::Ppu;
pub use registers::LcdRegister;
pub use scene::Scene;

// What lies below, for the crates above.
pub use gb_timer::irqs::{Irqs, Keys, next_irq};
pub use gb_timer::joypad::Joypad;
pub use gb_timer::timer::Timer;
