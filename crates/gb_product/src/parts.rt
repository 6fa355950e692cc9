//! A core and what is known of several parts together: the whole of a state but its items and cells.

ghost use Rattle.std.specs.Prelude.{◌<◌};

use gb_domain::pairs::Pairs;
use gb_domain::relations::Relations;
use gb_domain::types::{Cell, Core};

/// A core, and what is known of several parts together.
#[derive(Clone, Copy)]
pub struct Product {
    pub core: Core,
    pub relations: Relations,
}

/// One side of an instruction.
#[derive(Clone, Copy)]
pub struct Branch {
    pub core: Core,
    pub relations: Relations,
    /// What is then known of the byte at the address among the places, where that isn't any byte.
    pub cell: Option<Cell>,
}

/// The sides of an instruction, where they are possible.
#[derive(Clone, Copy)]
pub struct Branches {
    pub taken: Option<Branch>,
    pub not_taken: Option<Branch>,
}

/// The bounds of pairs are words.
pub(crate) fn holds_words(pairs: Pairs)
    ensures bc { pairs.bc.bounds.last < 65536 }
    ensures de { pairs.de.bounds.last < 65536 }
    ensures hl { pairs.hl.bounds.last < 65536 }
{}
