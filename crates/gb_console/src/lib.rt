//! The console: a cartridge runs, step by step and frame by frame.
//!
//! `Console::step` answers the event that `specs/Console.antt` chooses and leads to the machine's next state,
//! so that each state is one that some start and some events lead to (`Console::reached`), and any steps are
//! the machine's run over the events that they answered (`run::steps_are_played`). `Console::frame` is steps
//! (`specs/Frame.antt`); where some certificate is right for the cartridge, each frame is whole
//! (`specs/Verified.antt`). Read `console` first, then `choice`, `run` and `frame`.
#![tactic(auto)]

mod choice;
pub mod console;
pub mod frame;
pub mod run;

pub use console::Console;
pub use frame::Ending;
pub use run::Input;

// What lies below, for the crates above.
pub use gb_cpu::step::{Met, Stepped};
pub use gb_cpu::{FRAME_CYCLES, HEIGHT, Keys, Memory, WIDTH};
pub use gb_verify::check::{check, verdict_ignores_version};
pub use gb_verify::upgrade::{UpgradeTo, Upgraded, upgrade_bytes};
pub use gb_verify::verdict::Verdict;
pub use gb_verify::verify::{Outcome, certificate_line, verify_bytes};
pub use gb_verify::{
    Abs, Answer, Cell, Cert, CertFault, Core, Ctl, Flg, ImeSet, KeptBanks, May, NodeRef, OneByte,
    Origin, ProcedureRef, Program, Range, Reason, Relations, Rules, Setting, Span, Test, Val,
    callee, check_irqs, check_node, covered_at, covers, enter, gb_calls, resume, successors_of,
};
