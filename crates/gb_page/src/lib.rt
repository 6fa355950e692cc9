//! A certificate as a page for authors: one HTML document that needs no network, no script and no other file.
//!
//! Read `page` first, which makes the text and has the order of its parts; the facts are `gb_facts`'. Each other module writes
//! one part, but for `findings`, the page of a cartridge for which no certificate could be made, with the `path` to each and a `crash`, `json`,
//! the facts for programs, and `changes`, what a new certificate changed since an older one, with its words in `changed` and its
//! object in `compared`. Text that comes from a file of symbols or from the cartridge goes through `escaped`; all else is numbers and this crate's own words.
//! Nothing is promised of the text but that it is written safely.
#![tactic(auto)]

mod changed;
mod changes;
mod compared;
mod crash;
mod escaped;
mod findings;
mod interrupts;
mod json;
mod listing;
mod names;
mod node;
mod page;
mod path;
mod procedure;
mod procedures;
mod ram;
mod rom;
mod screen;
mod stack;
mod strip;
mod style;
mod verdict;

pub use changes::{Changes, Older};
pub use compared::changes_json;
pub use crash::{Crash, CrashFinding, crash_json};
pub use escaped::Escaped;
pub use findings::{FindingsExtras, findings_page};
pub use json::facts_json;
pub use page::{Extras, page_of};
pub use screen::Screen;
pub use verdict::named;

// What lies below, for the crates above.
pub use gb_reports::{
    Bound, CallLink, Cert, Code, CodePoint, CodeRun, Count, Crowd, EnteredBy, Explanation, Facts,
    Finding, Format, InstructionFinding, Interrupt, Listing, Multiplied, Multiplier, Outline,
    ReachedLimit, Rom, ShownFinding, Sketch, SymbolFault, SymbolFaultKind, SymbolOffset, Symbols,
    Verdict, color_note, explain, finding_json,
};
