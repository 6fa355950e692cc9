//! Facts of a cartridge and its certificate, as plain data: which code is certified in which bank, who calls whom, where
//! interrupts may come, and how deep the stack gets by which way.
//!
//! Read `facts` first, which has them all and gathers them; then `procedure`, `link` (calls and interrupts), `code`
//! (bytes of code) and `depth` (how deep the stack gets). `target` says to which node an instruction leads. `outline` has what
//! a certificate says without its cartridge, and `comparison` what is otherwise in a new one than in an old one. What is told
//! of an accepted certificate follows from the certificate alone; nothing is promised of it but that it is computed safely.
#![tactic(auto)]

mod code;
mod comparison;
mod depth;
mod facts;
mod interrupt;
mod link;
mod outline;
mod procedure;
mod target;

pub use code::{CodeRun, length_at};
pub use comparison::{Difference, Key, Keyed, Side, differences, is_same_way};
pub use depth::{Bound, StackStep, steps_from, way_from};
pub use facts::Facts;
pub use interrupt::{INTERRUPTS, Interrupt};
pub use link::{CallLink, EnteredBy};
pub use outline::{Outline, Sketch};
pub use procedure::{Exit, Peak, ProcedureFacts};
pub use target::target_of;

// What lies below, for the crates above.
pub use gb_explain::{
    AFTER_VECTORS, Advice, Cert, Code, Explanation, INTERRUPT_COUNT, KnownPart, PADDING, Rom,
    ShownFact, ShownSummary, Verdict, advice, explain, interrupt_at, interrupt_name, step_text,
};
