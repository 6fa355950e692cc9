//! States by their parts.

ghost use Rattle.std.specs.Prelude.{◌≡◌};
ghost use Rattle.gb_summaries.specs.Below.gb_relations.Transfer.{values_of};

use gb_domain::relations::Relations;
use gb_domain::summary::Summary;
use gb_domain::types::{Abs, Core};
use gb_summaries::Values;

/// States with this core, of which this is known together, which say this of the whole program, and the items and cells of others.
#[derive(Clone, Copy)]
pub struct States<'a> {
    pub core: &'a Core,
    pub relations: &'a Relations,
    pub summary: &'a Summary,
    pub lists: &'a Abs,
}

impl<'a> States<'a> {
    /// All parts of one state.
    pub fn of(state: &'a Abs) -> States<'a>
        ensures core { result.core.now ≡ state.now.core }
        ensures relations { result.relations.now ≡ state.now.relations }
        ensures summary { result.summary.now ≡ state.now.summary }
        ensures lists { result.lists.now ≡ state.now }
    {
        States {
            core: state.core(),
            relations: state.relations(),
            summary: state.summary(),
            lists: state,
        }
    }

    /// What is known of their registers and pairs.
    pub(crate) fn values(&self) -> Values
        ensures { result ≡ values_of self.now.core.now.registers self.now.relations.now.pairs }
    {
        Values {
            registers: self.core.registers,
            pairs: self.relations.pairs,
        }
    }
}
