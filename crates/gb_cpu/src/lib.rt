//! The processor, over any memory bus.
//!
//! The key contract is `Cpu::step`'s: by `next` a step is the machine's for the event that it answers, and by
//! `joined` that event's accesses lead from the bus before it to the bus after it. `step.rt` has the step and the
//! dispatch, over the accesses of `gb_accesses`, `opcodes.rt` the step where nobody asks for its event (`Cpu::run`), which
//! `plain.rt` executes,
//! and `power_up.rt` the beginning.
#![tactic(auto)]

mod opcodes;
mod plain;
mod power_up;
pub mod step;

pub use step::{Cpu, Met, Stepped};

// What lies below, for the crates above.
pub use gb_accesses::{Bus, FRAME_CYCLES, HEIGHT, Irqs, Keys, Memory, WIDTH, next_irq};
