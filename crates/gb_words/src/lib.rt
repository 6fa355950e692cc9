//! What the program's words ask for.
//!
//! `read_words` says which task the words stand for. Read `specs/Words.antt`, then `words`, `watching` and `hunting`; `help` has the texts.
#![tactic(auto)]

mod help;
mod hunting;
mod watching;
mod words;

pub use hunting::{HuntOption, HuntOptions};
pub use watching::{WatchOption, WatchOptions};
pub use words::{TargetVersion, Task, read_words};
