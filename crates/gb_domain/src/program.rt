//! What the rules know of the whole program.

ghost use Rattle.std.specs.Prelude.{◌≡◌, false, []};
ghost use Rattle.gb_ops.specs.declared.machine.Kind.TheVariants as kind;

use crate::summary::Fact;
use gb_ops::machine::Kind;
use std::marker::Model;

/// What states may speak of beside themselves: the cartridge's controller, and the facts of the certificate. Of a certificate of
/// versions 1 to 3 nothing is known, whatever its cartridge: its states say nothing of the whole program.
#[derive(Drop)]
pub struct Program<'a> {
    /// The rules are those of version 4.
    pub is_whole: bool,
    pub kind: Kind,
    pub facts: &'a [Fact],
}

impl<'a> Model for Program<'a> {
    ghost use Rattle.gb_domain.specs.Summaries as summaries;

    ghost Value = { summaries.Program };

    ghost view = { λ p. record { is_whole = p.is_whole; kind = p.kind; facts = p.facts.now } };
}

impl<'a> Program<'a> {
    /// Nothing is known.
    pub fn unknown() -> Program<'a>
        ensures { result ≡ record { is_whole = false; kind = kind.Rom; facts = [] } }
    {
        Program {
            is_whole: false,
            kind: Kind::Rom,
            facts: &[],
        }
    }
}
