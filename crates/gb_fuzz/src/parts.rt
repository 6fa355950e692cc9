//! A certificate's parts, each of which can be changed and written again.

use arrayvec::ArrayVec;
use gb_domain::types::Abs;
use gb_domain::{Fact, Range};
use gb_ops::machine::Region;
use gb_printed::gb_calls::gb_cert::{
    Cert, CertificatePlan, NodePlan, ProcedurePlan, Version, WriteFault, write_certificate,
};
use std::alloc::{AllocError, Global};

#[derive(Drop)]
pub struct PartProcedure {
    entry: u32,
    base: u16,
    pub need: u16,
    pub ranges: ArrayVec<Range, 8>,
    pub kept: ArrayVec<u16, 16>,
    pub mark: u8,
    pub exit: Option<Abs>,
}

#[derive(Drop)]
pub struct PartNode {
    procedure: u16,
    address: u16,
    bank: u16,
    pub state: Abs,
}

#[derive(Drop)]
pub struct CertificateParts {
    version: Version,
    region: Region,
    pub facts: Vec<Fact>,
    pub procedures: Vec<PartProcedure>,
    pub nodes: Vec<PartNode>,
}

fn version_of(cert: &Cert<'_>) -> Version {
    match cert.version() {
        1 => Version::One,
        2 => Version::Two,
        3 => Version::Three,
        _ => Version::Four,
    }
}

fn procedures_of(alloc: Global, cert: &Cert<'_>) -> Result<Vec<PartProcedure>, AllocError> {
    let mut procedures = Vec::new(alloc);
    for number in 0..cert.procedures() {
        let procedure = cert.procedure(number);
        procedures.push(PartProcedure {
            entry: procedure.entry(),
            base: procedure.base(),
            need: procedure.need(),
            ranges: procedure.ranges(),
            kept: procedure.kept(),
            mark: procedure.mark(),
            exit: procedure.exit(),
        })?;
    }
    Ok(procedures)
}

fn nodes_of(alloc: Global, cert: &Cert<'_>) -> Result<Vec<PartNode>, AllocError> {
    let mut nodes = Vec::new(alloc);
    for number in 0..cert.nodes() {
        let node = cert.node(number);
        nodes.push(PartNode {
            procedure: node.procedure(),
            address: node.address(),
            bank: node.bank(),
            state: node.state(),
        })?;
    }
    Ok(nodes)
}

fn procedure_plans(
    alloc: Global,
    procedures: &[PartProcedure],
) -> Result<Vec<ProcedurePlan<'_>>, AllocError> {
    let mut plans = Vec::new(alloc);
    for procedure in procedures {
        plans.push(ProcedurePlan {
            entry: procedure.entry,
            base: procedure.base,
            need: procedure.need,
            ranges: procedure.ranges.as_slice(),
            kept: procedure.kept.as_slice(),
            mark: procedure.mark,
            exit: procedure.exit.as_ref(),
        })?;
    }
    Ok(plans)
}

fn node_plans(alloc: Global, nodes: &[PartNode]) -> Result<Vec<NodePlan<'_>>, AllocError> {
    let mut plans = Vec::new(alloc);
    for node in nodes {
        plans.push(NodePlan {
            procedure: node.procedure,
            address: node.address,
            bank: node.bank,
            state: &node.state,
        })?;
    }
    Ok(plans)
}

impl CertificateParts {
    pub fn of(alloc: Global, cert: &Cert<'_>) -> Result<CertificateParts, AllocError> {
        let procedures = procedures_of(alloc, cert)?;
        let nodes = nodes_of(alloc, cert)?;
        Ok(CertificateParts {
            version: version_of(cert),
            region: cert.region(),
            facts: Vec::from_slice(alloc, cert.facts())?,
            procedures,
            nodes,
        })
    }

    /// The bytes that say these parts.
    pub fn written(&self, alloc: Global) -> Result<Vec<u8>, WriteFault> {
        let procedures = procedure_plans(alloc, self.procedures.as_slice())?;
        let nodes = node_plans(alloc, self.nodes.as_slice())?;
        let plan = CertificatePlan {
            version: self.version,
            region: self.region,
            facts: self.facts.as_slice(),
            procedures: procedures.as_slice(),
            nodes: nodes.as_slice(),
        };
        write_certificate(alloc, &plan)
    }
}
