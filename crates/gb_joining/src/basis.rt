//! By what a run's states are stepped, compared and joined.

use crate::configuration::Edition;
use gb_verify::gb_domain::summary::Fact;
use gb_verify::gb_ops::machine::Kind;
use gb_verify::{Program, Rules};

/// The rules of a run, and what its states may speak of beside themselves.
#[derive(Drop)]
pub struct Basis<'a> {
    pub edition: Edition,
    pub program: Program<'a>,
}

impl<'a> Basis<'a> {
    /// By these rules, of a cartridge with this controller and a certificate with these facts.
    pub fn of(edition: Edition, kind: Kind, facts: &'a [Fact]) -> Basis<'a> {
        let program = if edition.is_fourth() {
            Program {
                is_whole: true,
                kind,
                facts,
            }
        } else {
            Program::unknown()
        };
        Basis { edition, program }
    }

    /// The rules by which single states are taken on.
    pub fn rules(&self) -> Rules {
        self.edition.rules()
    }
}
