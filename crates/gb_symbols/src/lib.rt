//! Names for addresses: the symbols of an assembler's or a compiler's file, the lines of its sources, and addresses as authors
//! read them.
//!
//! Read `symbols` with `format` and `lines`, then `named`. It promises nothing but that it is safe and ends.
#![tactic(auto)]

mod fault;
mod format;
mod lines;
mod named;
mod symbols;

pub use fault::{SymbolFault, SymbolFaultKind};
pub use format::Format;
pub use lines::SourceLine;
pub use named::{BankAddress, ListedAddress, NamedText, ShownAddress, ShownLabel};
pub use symbols::{Symbol, SymbolOffset, Symbols};
