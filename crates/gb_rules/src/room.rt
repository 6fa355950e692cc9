//! Room for states that are made anew for each instruction.

use gb_successors::{Abs, Core};

/// States in whose place others are written, so that no room for them has to be cleared each time. What is in them means
/// nothing.
#[derive(Drop)]
pub struct Room {
    /// Behind an instruction.
    pub(crate) behind: Abs,
    /// A callee's exit.
    pub(crate) exit: Abs,
    /// What a callee begins with, or its caller goes on with.
    pub(crate) other: Abs,
}

impl Room {
    /// Room with states of this core in it.
    pub fn new(core: Core) -> Room {
        Room {
            behind: Abs::new(core),
            exit: Abs::new(core),
            other: Abs::new(core),
        }
    }
}
