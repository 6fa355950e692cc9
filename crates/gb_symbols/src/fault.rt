//! Why a file of symbols or of lines can't be read.

use std::alloc::{AllocError, AllocFailed};
use std::fmt;

/// What is wrong with a line.
#[derive(Clone, Copy, PartialEq, Eq)]
pub enum SymbolFaultKind {
    /// The file isn't text.
    NotText,
    /// The file has none of the formats.
    NoFormat,
    /// A line lacks the bank, the address or the name that the format asks for.
    Line,
    /// The file names no line of a source.
    NoLines,
    Memory,
}

/// What is wrong with a file of symbols, and in which line, counted from 1.
#[derive(Clone, Copy, PartialEq, Eq)]
pub struct SymbolFault {
    pub kind: SymbolFaultKind,
    pub line: usize,
}

impl SymbolFault {
    /// What is wrong with the file as a whole.
    pub(crate) fn of(kind: SymbolFaultKind) -> SymbolFault {
        SymbolFault { kind, line: 0 }
    }

    /// There isn't enough memory.
    fn memory() -> SymbolFault {
        SymbolFault::of(SymbolFaultKind::Memory)
    }
}

impl From<AllocError> for SymbolFault {
    fn from(_error: AllocError) -> SymbolFault {
        SymbolFault::memory()
    }
}

impl<T: Drop> From<AllocFailed<T>> for SymbolFault {
    fn from(_error: AllocFailed<T>) -> SymbolFault {
        SymbolFault::memory()
    }
}

impl fmt::Display for SymbolFault {
    fn fmt<W: fmt::Write>(&self, f: &mut fmt::Formatter<W>) -> fmt::Result {
        let line = self.line;
        match self.kind {
            SymbolFaultKind::NotText => write!(f, "not a file of symbols: it isn't text"),
            SymbolFaultKind::NoFormat => write!(
                f,
                "not a file of symbols: use a .sym (`rgblink -n` or `makebin -yS`), or an SDCC .noi or .map"
            ),
            SymbolFaultKind::Line => write!(
                f,
                "line {line} doesn't have a bank, an address and a name like the lines before it"
            ),
            SymbolFaultKind::NoLines => write!(
                f,
                "no source lines: use an SDCC .cdb (`lcc -debug`, `sdcc --debug`) or .rst"
            ),
            SymbolFaultKind::Memory => write!(f, "not enough memory"),
        }
    }
}
