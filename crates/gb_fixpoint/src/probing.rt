//! Probing: where the steps of some nodes lead under another configuration. An edit that sends all of them to the same nodes
//! as before, whatever these are called, tells nothing apart, so that a run under it would end where this one did.

use crate::types::Run;
use gb_joining::code_point::CodePoint;
use gb_joining::configuration::{Configuration, TargetPlace};
use gb_joining::gb_verify::Abs;
use gb_joining::keys::{NodeKey, ProcedureKey};
use gb_joining::stop::RunStop;
use std::alloc::{AllocError, Global};
use std::collections::{BTreeSet, HashMap};

/// What a step leads to.
#[derive(Clone, Copy, PartialEq, Eq, Hash)]
pub enum Arrival {
    Node(NodeKey),
    Procedure(ProcedureKey),
}

/// Where the edits of a plan tell states apart: on arrival at some places, and at the calls of some targets.
#[derive(Drop)]
pub struct EditedPlaces {
    pub places: BTreeSet<TargetPlace>,
    pub targets: BTreeSet<CodePoint>,
}

impl EditedPlaces {
    /// None yet.
    pub fn new(alloc: Global) -> EditedPlaces {
        EditedPlaces {
            places: BTreeSet::new(alloc),
            targets: BTreeSet::new(alloc),
        }
    }
}

/// Whether arrivals belong to one another, each to one alone.
fn are_one_to_one(
    before: &[Arrival],
    behind: &[Arrival],
    run: &Run<'_>,
) -> Result<bool, AllocError> {
    if before.len() != behind.len() {
        return Ok(false);
    }
    let mut onwards: HashMap<Arrival, Arrival> = HashMap::new(run.alloc);
    let mut back: HashMap<Arrival, Arrival> = HashMap::new(run.alloc);
    for (old, new) in before.iter().zip(behind) {
        let is_same = match (onwards.get(old), back.get(new)) {
            (Some(to), Some(from)) => to == new && from == old,
            (None, None) => true,
            _ => false,
        };
        if !is_same {
            return Ok(false);
        }
        onwards.insert(*old, *new)?;
        back.insert(*new, *old)?;
    }
    Ok(true)
}

impl<'a> Run<'a> {
    /// The configuration becomes a finer one. Whether that tells states apart that were joined: else a run under it would be
    /// this one again.
    pub fn is_refined_by(
        &mut self,
        finer: Configuration,
        edited: &EditedPlaces,
    ) -> Result<bool, AllocError> {
        let nodes = self.nodes_before(edited)?;
        let before = self.arrivals(nodes.as_slice())?;
        self.configuration = finer;
        let behind = self.arrivals(nodes.as_slice())?;
        match (before, behind) {
            (Some(before), Some(behind)) => {
                Ok(!are_one_to_one(before.as_slice(), behind.as_slice(), self)?)
            }
            _ => Ok(true),
        }
    }

    /// The nodes whose steps lead to places, and those that call targets.
    fn nodes_before(&self, edited: &EditedPlaces) -> Result<Vec<usize>, AllocError> {
        let mut nodes = BTreeSet::new(self.alloc);
        for edge in &self.edges {
            let place = TargetPlace {
                target: self.target(edge.procedure),
                point: edge.to,
            };
            if edited.places.contains(&place) {
                for node in self.nodes_at(edge.source()) {
                    nodes.insert(*node)?;
                }
            }
        }
        for procedure in &self.procedures {
            if edited.targets.contains(&procedure.key.point()) {
                for site in &procedure.sites {
                    nodes.insert(*site)?;
                }
            }
        }
        nodes.iter().copied().collect(self.alloc)
    }

    /// What the steps of nodes lead to, in their order; None if one is refused, since what comes behind it is told apart only once it
    /// isn't.
    fn arrivals(&mut self, nodes: &[usize]) -> Result<Option<Vec<Arrival>>, AllocError> {
        self.probed = Some(Vec::new(self.alloc));
        let mut is_refused = false;
        for node in nodes {
            match self.step(*node) {
                Err(RunStop::Memory(error)) => return Err(error),
                Err(RunStop::Failed(_)) => is_refused = true,
                _ => {}
            }
        }
        let probed = self.probed.take();
        if is_refused { Ok(None) } else { Ok(probed) }
    }

    /// A node goes on behind a callee that it has called before, while it is probed.
    pub fn go_behind_probed(
        &mut self,
        number: usize,
        target: CodePoint,
        caller: &Abs,
        back: u16,
    ) -> Result<(), RunStop> {
        let callee = self.procedures.iter().position(|called| called.key.point() == target
            && called.sites.contains(&number));
        match callee {
            Some(callee) => self.go_behind(number, callee, caller, back),
            None => Ok(()),
        }
    }
}
