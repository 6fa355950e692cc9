//! The certificate of a finished run.

use crate::order::order;
use gb_cert::{CertificatePlan, NodePlan, ProcedurePlan, Version, WriteFault, write_certificate};
use gb_fixpoint::limits::COMPARED;
use gb_fixpoint::types::{Run, RunNode, RunProcedure};
use gb_fixpoint::{Abs, Edition, Region, covers, known_bank};
use std::alloc::{AllocError, Global};

/// Where a node stands in a certificate: by its procedure, then by its address.
#[derive(Clone, Copy, PartialEq, Eq, PartialOrd, Ord)]
struct NodeStanding {
    procedure: usize,
    address: u16,
    node: usize,
}

/// The bytes of the certificate of a finished run, whose needs were found, with this stack region: in version 4 or 3, as
/// its rules are; by those of versions 1 and 2 in version 1, and in version 2 where it has more than 65,535 nodes.
///
/// # Errors
///
/// The limit of certificates that the run doesn't keep, or Memory where memory ran out.
pub fn certificate_of(alloc: Global, run: &Run<'_>, region: Region) -> Result<Vec<u8>, WriteFault> {
    let order = order(alloc, run)?;
    let standings = standings(alloc, run, order.as_slice())?;
    let places = places(alloc, run, standings.as_slice())?;
    let procedures = procedures(alloc, run, order.as_slice(), places.as_slice())?;
    let nodes = nodes(alloc, run, standings.as_slice())?;
    let version = version_of(run.configuration.edition, nodes.len());
    let plan = CertificatePlan {
        version,
        region,
        facts: run.program().facts,
        procedures: procedures.as_slice(),
        nodes: nodes.as_slice(),
    };
    write_certificate(alloc, &plan)
}

/// The version of a certificate with so many nodes.
fn version_of(edition: Edition, nodes: usize) -> Version {
    match edition {
        Edition::Fourth => Version::Four,
        Edition::Third => Version::Three,
        Edition::Early if nodes > Version::One.node_limit() as usize => Version::Two,
        Edition::Early => Version::One,
    }
}

/// The procedures, in the order of a certificate, by the numbers of all nodes in it.
fn procedures<'a>(
    alloc: Global,
    run: &'a Run<'_>,
    order: &[usize],
    places: &[usize],
) -> Result<Vec<ProcedurePlan<'a>>, AllocError> {
    let mut procedures = Vec::new(alloc);
    for number in order {
        if let Some(procedure) = run.procedures.get(*number) {
            let base = base_of(run, *number);
            let kept = kept_by(run, *number);
            procedures.push(procedure_plan(procedure, base, kept, places))?;
        }
    }
    Ok(procedures)
}

/// The base of a procedure. Main's is the region's end, by the rules of versions 1 and 2 too.
fn base_of(run: &Run<'_>, number: usize) -> u16 {
    if number == 0 {
        run.configuration.region.last.saturating_add(1)
    } else {
        run.base_of(number)
    }
}

/// The addresses whose bytes a procedure keeps: main keeps none.
fn kept_by<'a>(run: &'a Run<'_>, number: usize) -> &'a [u16] {
    if number == 0 {
        &[]
    } else {
        run.kept.as_slice()
    }
}

/// A procedure with this base, which keeps the bytes at these addresses. What is too large for its field is above the limit that the writer names.
fn procedure_plan<'a>(
    procedure: &'a RunProcedure,
    base: u16,
    kept: &'a [u16],
    places: &[usize],
) -> ProcedurePlan<'a> {
    let entry = match procedure.entry {
        Some(number) => places.get(number).copied().unwrap_or(0),
        None => 0,
    };
    ProcedurePlan {
        entry: u32::try_from(entry).unwrap_or(u32::MAX),
        base,
        need: u16::try_from(procedure.need).unwrap_or(u16::MAX - 1),
        ranges: procedure.ranges.as_slice(),
        kept,
        mark: procedure.mark.unwrap_or(0),
        exit: exit_of(procedure),
    }
}

/// In what state a procedure returns, if it does.
fn exit_of(procedure: &RunProcedure) -> Option<&Abs> {
    match &procedure.exit {
        Some(state) => Some(state),
        None => None,
    }
}

/// The nodes, in the order of a certificate.
fn nodes<'a>(
    alloc: Global,
    run: &'a Run<'_>,
    standings: &[NodeStanding],
) -> Result<Vec<NodePlan<'a>>, WriteFault> {
    let mut nodes = Vec::new(alloc);
    for standing in standings {
        if let Some(node) = run.nodes.get(standing.node) {
            nodes.push(node_plan(run, standing.procedure, node)?)?;
        }
    }
    Ok(nodes)
}

/// A node of the procedure with a number.
fn node_plan<'a>(
    run: &Run<'_>,
    procedure: usize,
    node: &'a RunNode,
) -> Result<NodePlan<'a>, WriteFault> {
    let Ok(procedure) = u16::try_from(procedure) else {
        return Err(WriteFault::Procedures);
    };
    let address = node.key.address;
    let bank = known_bank(run.rom, &node.state.core().ctl, address);
    Ok(NodePlan {
        procedure,
        address,
        bank: bank.unwrap_or(0),
        state: &node.state,
    })
}

/// The nodes that a certificate needs, in its order, by the order of procedures.
fn standings(
    alloc: Global,
    run: &Run<'_>,
    order: &[usize],
) -> Result<Vec<NodeStanding>, AllocError> {
    let numbers = numbers(alloc, run, order)?;
    let spare = spare_nodes(alloc, run)?;
    let mut standings = Vec::new(alloc);
    add_standings(run, numbers.as_slice(), spare.as_slice(), &mut standings)?;
    standings.sort()?;
    Ok(standings)
}

/// Adds the nodes that aren't spare, by the numbers of their procedures in a certificate.
fn add_standings(
    run: &Run<'_>,
    numbers: &[usize],
    spare: &[bool],
    standings: &mut Vec<NodeStanding>,
) -> Result<(), AllocError> {
    for (number, node) in run.nodes.iter().enumerate() {
        if spare.get(number) == Some(&true) {
            continue;
        }
        if let Some(procedure) = numbers.get(node.key.procedure) {
            standings.push(NodeStanding {
                procedure: *procedure,
                address: node.key.address,
                node: number,
            })?;
        }
    }
    Ok(())
}

/// For each procedure its number in a certificate.
fn numbers(alloc: Global, run: &Run<'_>, order: &[usize]) -> Result<Vec<usize>, AllocError> {
    let mut numbers = vec![in alloc; 0; run.procedures.len()]?;
    for (place, procedure) in order.iter().enumerate() {
        if let Some(number) = numbers.get_mut(*procedure) {
            *number = place;
        }
    }
    Ok(numbers)
}

/// For each node its number in a certificate, 0 where it is spare.
fn places(
    alloc: Global,
    run: &Run<'_>,
    standings: &[NodeStanding],
) -> Result<Vec<usize>, AllocError> {
    let mut places = vec![in alloc; 0; run.nodes.len()]?;
    for (place, standing) in standings.iter().enumerate() {
        if let Some(number) = places.get_mut(standing.node) {
            *number = place;
        }
    }
    Ok(places)
}

/// For each node whether another one of its address stands for all that it does, and is kept.
fn spare_nodes(alloc: Global, run: &Run<'_>) -> Result<Vec<bool>, AllocError> {
    let mut spare = vec![in alloc; false; run.nodes.len()]?;
    for nodes in run.at.values() {
        if nodes.len() > 1 && nodes.len() <= COMPARED {
            mark_spare(run, nodes.as_slice(), spare.as_mut_slice());
        }
    }
    Ok(spare)
}

/// Marks the nodes of an address that are spare.
fn mark_spare(run: &Run<'_>, nodes: &[usize], spare: &mut [bool]) {
    for number in nodes {
        let is_spare = is_spare(run, *number, nodes, spare);
        if let Some(mark) = spare.get_mut(*number) {
            *mark = is_spare;
        }
    }
}

/// Whether one of the nodes of its address stands for all that a node does. Of two that stand for the same the
/// later one is spare, and the first node of a procedure never is.
fn is_spare(run: &Run<'_>, number: usize, nodes: &[usize], spare: &[bool]) -> bool {
    let Some(node) = run.nodes.get(number) else {
        return false;
    };
    if node.key.is_entry {
        return false;
    }
    for other in nodes {
        if *other != number
            && spare.get(*other) != Some(&true)
            && stands_for(run, *other, node)
            && (*other < number || !is_above(run, node, *other))
        {
            return true;
        }
    }
    false
}

/// Whether a node stands for all that another one does.
fn stands_for(run: &Run<'_>, number: usize, node: &RunNode) -> bool {
    match run.nodes.get(number) {
        Some(other) => covers(&run.program(), &node.state, &other.state),
        None => false,
    }
}

/// Whether a node stands for all that the node with a number does.
fn is_above(run: &Run<'_>, node: &RunNode, number: usize) -> bool {
    match run.nodes.get(number) {
        Some(other) => covers(&run.program(), &other.state, &node.state),
        None => false,
    }
}
