//! A certificate that is changed: its nodes and procedures one by one, and the bytes of those that are left.

use crate::demands::{entry_of, procedure_of};
use crate::onward::state_of;
use arrayvec::ArrayVec;
use gb_draft::gb_ops::machine::Region;
use gb_draft::{
    Abs, Cert, CertificatePlan, Fact, NodePlan, ProcedurePlan, Range, Version, WriteFault, exit_of,
    kept_of, ranges_of, write_certificate,
};
use std::alloc::{AllocError, Global};

/// A node of a certificate that is changed.
#[derive(Drop)]
pub(crate) struct ChangedNode {
    pub(crate) procedure: u16,
    pub(crate) address: u16,
    bank: u16,
    pub(crate) state: Abs,
    /// It is left out.
    pub(crate) is_spare: bool,
}

/// A procedure of a certificate that is changed.
#[derive(Drop)]
pub(crate) struct ChangedProcedure {
    /// The number of its first node.
    pub(crate) entry: u32,
    base: u16,
    need: u16,
    ranges: ArrayVec<Range, 8>,
    kept: ArrayVec<u16, 16>,
    mark: u8,
    pub(crate) exit: Option<Abs>,
}

/// In what version a certificate is written again: 4, or else 3.
fn version_of(cert: &Cert<'_>) -> Version {
    if cert.version() == 4 {
        Version::Four
    } else {
        Version::Three
    }
}

/// A certificate that is changed.
#[derive(Drop)]
pub(crate) struct Changed<'a> {
    alloc: Global,
    version: Version,
    region: Region,
    facts: &'a [Fact],
    pub(crate) nodes: Vec<ChangedNode>,
    pub(crate) procedures: Vec<ChangedProcedure>,
}

/// Where a node comes in the bytes: by its procedure, then by its address.
#[derive(Clone, Copy, PartialEq, Eq, PartialOrd, Ord)]
struct NewStanding {
    procedure: u16,
    address: u16,
    node: usize,
}

impl<'a> Changed<'a> {
    /// A certificate as it is.
    pub(crate) fn of(alloc: Global, cert: &'a Cert<'_>) -> Result<Changed<'a>, AllocError> {
        let mut changed = Changed {
            alloc,
            version: version_of(cert),
            region: cert.region(),
            facts: cert.facts(),
            nodes: Vec::new(alloc),
            procedures: Vec::new(alloc),
        };
        for number in 0..cert.nodes() {
            if let Some(state) = state_of(cert, number) {
                let node = cert.node(number);
                changed.nodes.push(ChangedNode {
                    procedure: procedure_of(cert, number),
                    address: node.address(),
                    bank: node.bank(),
                    state,
                    is_spare: false,
                })?;
            }
        }
        for number in 0..cert.procedures() {
            let procedure = cert.procedure(number);
            changed.procedures.push(ChangedProcedure {
                entry: entry_of(cert, number),
                base: procedure.base(),
                need: procedure.need(),
                ranges: ranges_of(cert, number),
                kept: kept_of(cert, number),
                mark: procedure.mark(),
                exit: exit_of(cert, number),
            })?;
        }
        Ok(changed)
    }

    /// The state of a procedure's first node.
    pub(crate) fn entry_state(&self, procedure: u16) -> Option<&Abs> {
        match self.procedures.get(usize::from(procedure)) {
            Some(one) => match self.nodes.get(one.entry as usize) {
                Some(node) => Some(&node.state),
                None => None,
            },
            None => None,
        }
    }

    /// The address where a procedure begins.
    pub(crate) fn entry_address(&self, procedure: u16) -> Option<u16> {
        let one = self.procedures.get(usize::from(procedure))?;
        let node = self.nodes.get(one.entry as usize)?;
        Some(node.address)
    }

    /// The addresses where procedures begin, 0 of one without a node.
    pub(crate) fn entry_addresses(&self) -> Result<Vec<u16>, AllocError> {
        let mut addresses = Vec::new(self.alloc);
        for procedure in &self.procedures {
            let address = match self.nodes.get(procedure.entry as usize) {
                Some(node) => node.address,
                None => 0,
            };
            addresses.push(address)?;
        }
        Ok(addresses)
    }

    /// Whether the node with a number begins its procedure.
    pub(crate) fn is_entry(&self, number: usize) -> bool {
        match self.nodes.get(number) {
            Some(node) => match self.procedures.get(usize::from(node.procedure)) {
                Some(procedure) => procedure.entry as usize == number,
                None => false,
            },
            None => false,
        }
    }

    /// The numbers of the nodes that are left, in the order of the bytes.
    pub(crate) fn numbers(&self, order: &[u16]) -> Result<Vec<usize>, AllocError> {
        let standings = self.standings(order)?;
        standings
            .iter()
            .map(|standing| standing.node)
            .collect(self.alloc)
    }

    /// The bytes of what is left, by the procedures in a new order.
    pub(crate) fn written(&self, order: &[u16]) -> Result<Vec<u8>, WriteFault> {
        let standings = self.standings(order)?;
        let places = self.places(standings.as_slice())?;
        let mut nodes = Vec::new(self.alloc);
        for standing in &standings {
            if let Some(node) = self.nodes.get(standing.node) {
                nodes.push(NodePlan {
                    procedure: standing.procedure,
                    address: node.address,
                    bank: node.bank,
                    state: &node.state,
                })?;
            }
        }
        let mut procedures = Vec::new(self.alloc);
        for number in order {
            if let Some(procedure) = self.procedures.get(usize::from(*number)) {
                procedures.push(procedure.plan(places.as_slice()))?;
            }
        }
        let plan = CertificatePlan {
            version: self.version,
            region: self.region,
            facts: self.facts,
            procedures: procedures.as_slice(),
            nodes: nodes.as_slice(),
        };
        write_certificate(self.alloc, &plan)
    }

    /// The nodes that are left, in their order.
    fn standings(&self, order: &[u16]) -> Result<Vec<NewStanding>, AllocError> {
        let mut numbers = vec![in self.alloc; None; self.procedures.len()]?;
        for (place, old) in order.iter().enumerate() {
            if let Some(number) = numbers.get_mut(usize::from(*old)) {
                *number = u16::try_from(place).ok();
            }
        }
        let mut standings = Vec::new(self.alloc);
        for (number, node) in self.nodes.iter().enumerate() {
            if !node.is_spare
                && let Some(Some(procedure)) = numbers.get(usize::from(node.procedure))
            {
                standings.push(NewStanding {
                    procedure: *procedure,
                    address: node.address,
                    node: number,
                })?;
            }
        }
        standings.sort()?;
        Ok(standings)
    }

    /// For each node its new number, 0 where it is left out.
    fn places(&self, standings: &[NewStanding]) -> Result<Vec<u32>, AllocError> {
        let mut places = vec![in self.alloc; 0u32; self.nodes.len()]?;
        for (place, standing) in standings.iter().enumerate() {
            if let Some(number) = places.get_mut(standing.node) {
                *number = u32::try_from(place).unwrap_or(u32::MAX);
            }
        }
        Ok(places)
    }
}

impl ChangedProcedure {
    /// What is written of it, by the new numbers of all nodes.
    fn plan(&self, places: &[u32]) -> ProcedurePlan<'_> {
        ProcedurePlan {
            entry: places.get(self.entry as usize).copied().unwrap_or(0),
            base: self.base,
            need: self.need,
            ranges: self.ranges.as_slice(),
            kept: self.kept.as_slice(),
            mark: self.mark,
            exit: match &self.exit {
                Some(exit) => Some(exit),
                None => None,
            },
        }
    }
}
