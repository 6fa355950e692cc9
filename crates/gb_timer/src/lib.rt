//! The timer, the joypad, and which interrupt comes next.
//!
//! `Timer::advance` takes any M-cycles at once and is the same as one M-cycle after another
//! (`specs/Timer.antt`); `Joypad::set` requests its interrupt where a line falls; `next_irq` is the lowest
//! interrupt that is enabled and requested. Read `irqs` first, then `joypad` and `timer`.
#![tactic(auto)]

mod bits;
pub mod irqs;
pub mod joypad;
pub mod timer;

pub use irqs::{Irqs, Keys};
pub use joypad::Joypad;
pub use timer::Timer;
