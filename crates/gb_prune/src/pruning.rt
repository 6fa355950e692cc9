//! Smaller certificates from accepted ones of versions 3 and 4: what nothing asks for is left out, and then the nodes and procedures
//! that others stand for. The checker judges what comes out.

use crate::changed::Changed;
use crate::demands::{Demands, entry_of};
use crate::onward::{LeadsTo, NodeSite, Onward, state_of};
use crate::parts::weakened;
use crate::standing::{Standby, Standing};
use gb_draft::limits::COMPARED;
use gb_draft::{
    Abs, Cert, Precedence, Program, Rom, Rules, WriteFault, add_in_order, by_address, check_irqs,
    check_node, covers, enter, kept_of, program_of, taken_by,
};
use std::alloc::{AllocError, Global};
use std::collections::BTreeSet;

/// The most nodes of a certificate that is made smaller so.
const MOST_NODES: u32 = 200_000;

/// How often it is looked again for what was left out too much.
const REPAIRS: u32 = 12;

/// An accepted certificate of version 3 or 4 of which only what is asked for is left. None where that isn't found.
///
/// # Errors
///
/// Memory where memory ran out. No limit of certificates can be passed.
pub fn pruned(
    alloc: Global,
    rom: &Rom<'_>,
    cert: &Cert<'_>,
) -> Result<Option<Vec<u8>>, WriteFault> {
    if cert.version() < 3 || cert.nodes() > MOST_NODES {
        return Ok(None);
    }
    let Some(mut demands) = Demands::of(alloc, rom, cert)? else {
        return Ok(None);
    };
    for _ in 0..REPAIRS {
        let mut changed = Changed::of(alloc, cert)?;
        weaken(&demands, &mut changed);
        mark_spare(&program_of(rom, cert), &mut changed);
        let order = new_order(alloc, rom, cert, &demands, &changed)?;
        let bytes = changed.written(order.as_slice())?;
        let refused = refused_nodes(alloc, rom, &bytes)?;
        if refused.is_empty() {
            return Ok(Some(bytes));
        }
        let numbers = changed.numbers(order.as_slice())?;
        let is_new = insist(&mut demands, refused.as_slice(), numbers.as_slice())?;
        if !is_new || !demands.settle()? {
            return Ok(None);
        }
    }
    Ok(None)
}

/// The numbers of the nodes against which the checker has a reason.
fn refused_nodes(alloc: Global, rom: &Rom<'_>, bytes: &[u8]) -> Result<Vec<usize>, WriteFault> {
    let mut refused = Vec::new(alloc);
    let Ok(cert) = Cert::parse(alloc, bytes) else {
        return Err(WriteFault::Memory);
    };
    for number in 0..cert.nodes() {
        if check_node(rom, &cert, number).is_err() || check_irqs(rom, &cert, number).is_err() {
            refused.push(number as usize)?;
        }
    }
    Ok(refused)
}

/// All is wanted of the nodes that were refused, by their numbers in the accepted certificate. False where that is nothing new.
fn insist(
    demands: &mut Demands<'_, '_>,
    refused: &[usize],
    numbers: &[usize],
) -> Result<bool, AllocError> {
    let mut is_new = false;
    for number in refused {
        if let Some(old) = numbers.get(*number) {
            is_new |= demands.insist(u32::try_from(*old).unwrap_or(u32::MAX))?;
        }
    }
    Ok(is_new)
}

/// Leaves out what isn't demanded.
fn weaken(demands: &Demands<'_, '_>, changed: &mut Changed<'_>) {
    for (number, node) in changed.nodes.iter_mut().enumerate() {
        if let Some(wanted) = demands.nodes.get(number) {
            node.state = weakened(&node.state, *wanted);
        }
    }
    for (number, procedure) in changed.procedures.iter_mut().enumerate() {
        if let Some(wanted) = demands.exits.get(number)
            && let Some(exit) = &procedure.exit
        {
            procedure.exit = Some(weakened(exit, *wanted));
        }
    }
}

/// Marks the nodes that another one of their procedure and address stands for.
fn mark_spare(program: &Program<'_>, changed: &mut Changed<'_>) {
    let mut first = 0;
    for number in 0..changed.nodes.len() {
        if !is_same_place(changed, first, number) {
            first = number;
        }
        if is_spare(program, changed, first, number)
            && let Some(node) = changed.nodes.get_mut(number)
        {
            node.is_spare = true;
        }
    }
}

/// Whether two nodes are of one procedure and address.
fn is_same_place(changed: &Changed<'_>, a: usize, b: usize) -> bool {
    match (changed.nodes.get(a), changed.nodes.get(b)) {
        (Some(a), Some(b)) => a.procedure == b.procedure && a.address == b.address,
        _ => false,
    }
}

/// Whether another node of the same place, from the first one there on, stands for all that a node does.
fn is_spare(program: &Program<'_>, changed: &Changed<'_>, first: usize, number: usize) -> bool {
    if changed.is_entry(number) {
        return false;
    }
    let Some(node) = changed.nodes.get(number) else {
        return false;
    };
    let after = first.saturating_add(COMPARED).min(changed.nodes.len());
    for other in first..after {
        if !is_same_place(changed, number, other) {
            return false;
        }
        if other != number
            && let Some(with) = changed.nodes.get(other)
            && !with.is_spare
            && covers(program, &node.state, &with.state)
            && (other < number
                || changed.is_entry(other)
                || !covers(program, &with.state, &node.state))
        {
            return true;
        }
    }
    false
}

/// The procedures in an order by which each call finds its own one first.
fn new_order(
    alloc: Global,
    rom: &Rom<'_>,
    cert: &Cert<'_>,
    demands: &Demands<'_, '_>,
    changed: &Changed<'_>,
) -> Result<Vec<u16>, AllocError> {
    let mut precedences = BTreeSet::new(alloc);
    for number in 0..cert.nodes() {
        if let Some(ways) = demands.onward.get(number as usize) {
            add_precedences(
                rom,
                cert,
                changed,
                number,
                ways.as_slice(),
                &mut precedences,
            )?;
        }
    }
    let mut open = Vec::new(alloc);
    for procedure in 1..cert.procedures() {
        open.push(usize::from(procedure))?;
    }
    let mut order = vec![in alloc; 0usize]?;
    let count = usize::from(cert.procedures());
    add_in_order(count, &mut open, &mut precedences, &mut order)?;
    if cert.version() == 4 {
        let addresses = changed.entry_addresses()?;
        order = by_address(alloc, order.as_slice(), addresses.as_slice())?;
    }
    order
        .iter()
        .map(|procedure| u16::try_from(*procedure).unwrap_or(u16::MAX))
        .collect(alloc)
}

/// What comes before what, by all that a node enters.
fn add_precedences(
    rom: &Rom<'_>,
    cert: &Cert<'_>,
    changed: &Changed<'_>,
    number: u32,
    ways: &[LeadsTo],
    precedences: &mut BTreeSet<Precedence>,
) -> Result<(), AllocError> {
    let Some(node) = changed.nodes.get(number as usize) else {
        return Ok(());
    };
    if !ways
        .iter()
        .any(|leads| matches!(leads.onward, Onward::Enters { .. }))
    {
        return Ok(());
    }
    let Some(site) = NodeSite::of(rom, cert, number, &node.state) else {
        return Ok(());
    };
    let successors = site.step(&node.state);
    for leads in ways {
        if let Onward::Enters { callee, .. } = leads.onward
            && let Some(after) = site.state_after(&successors, leads.way, &node.state)
        {
            add_entered(&site, changed, callee, &after, precedences)?;
        }
    }
    Ok(())
}

/// A procedure comes before the others of its address that may be entered in a state that enters it.
fn add_entered(
    site: &NodeSite<'_, '_>,
    changed: &Changed<'_>,
    callee: u16,
    after: &Abs,
    precedences: &mut BTreeSet<Precedence>,
) -> Result<(), AllocError> {
    let (cert, program) = (site.cert, site.program());
    let address = changed.entry_address(callee);
    for other in 1..cert.procedures() {
        if other != callee
            && changed.entry_address(other) == address
            && let Some(entry) = changed.entry_state(other)
            && covers(
                &program,
                &enter(
                    &program,
                    cert.region(),
                    Rules::Extended,
                    taken_by(cert, other),
                    &kept_of(cert, other),
                    after,
                ),
                entry,
            )
        {
            precedences.insert(Precedence {
                before: usize::from(callee),
                after: usize::from(other),
            })?;
        }
    }
    Ok(())
}

/// The nodes and procedures of an accepted certificate that are reached from main's entry: each state that comes goes on at the
/// first node that stands for it.
///
/// # Errors
///
/// Memory where memory ran out.
pub fn reached(alloc: Global, rom: &Rom<'_>, cert: &Cert<'_>) -> Result<Vec<u8>, WriteFault> {
    let mut reached = Reachable::from_main(alloc, cert)?;
    reached.go_on(rom)?;
    reached.written()
}

/// What is reached from main's entry.
#[derive(Drop)]
struct Reachable<'a> {
    alloc: Global,
    cert: &'a Cert<'a>,
    /// By node, whether it is reached.
    nodes: Vec<bool>,
    /// By procedure, whether it is entered.
    procedures: Vec<bool>,
    /// The nodes whose ways are still to be followed.
    queue: Vec<u32>,
}

impl<'a> Reachable<'a> {
    /// Main's entry, whose ways are to be followed.
    fn from_main(alloc: Global, cert: &'a Cert<'a>) -> Result<Reachable<'a>, AllocError> {
        let mut reached = Reachable {
            alloc,
            cert,
            nodes: vec![in alloc; false; cert.nodes() as usize]?,
            procedures: vec![in alloc; false; usize::from(cert.procedures())]?,
            queue: Vec::new(alloc),
        };
        reached.enter(0)?;
        Ok(reached)
    }

    /// A procedure is entered.
    fn enter(&mut self, procedure: u16) -> Result<(), AllocError> {
        if let Some(mark) = self.procedures.get_mut(usize::from(procedure)) {
            *mark = true;
        }
        let entry = Standby::One(entry_of(self.cert, procedure));
        reach(entry, self.nodes.as_mut_slice(), &mut self.queue)
    }

    /// A way is followed.
    fn follow(&mut self, onward: Onward) -> Result<(), AllocError> {
        match onward {
            Onward::Nodes(nodes) => reach(nodes, self.nodes.as_mut_slice(), &mut self.queue),
            Onward::Exit => Ok(()),
            Onward::Enters { callee, back } => {
                self.enter(callee)?;
                match back {
                    Some(nodes) => reach(nodes, self.nodes.as_mut_slice(), &mut self.queue),
                    None => Ok(()),
                }
            }
        }
    }

    /// All ways from what is reached are followed.
    fn go_on(&mut self, rom: &Rom<'_>) -> Result<(), AllocError> {
        let mut standing = Standing::of(self.alloc, self.cert)?;
        for _ in 0..self.cert.nodes() {
            let Some(number) = self.queue.pop() else {
                break
            };
            let Some(state) = state_of(self.cert, number) else {
                continue
            };
            let Some(site) = NodeSite::of(rom, self.cert, number, &state) else {
                continue
            };
            for leads in &site.leads_to(self.alloc, &state, &mut standing)? {
                self.follow(leads.onward)?;
            }
        }
        Ok(())
    }

    /// The certificate of what is reached.
    fn written(&self) -> Result<Vec<u8>, WriteFault> {
        let mut changed = Changed::of(self.alloc, self.cert)?;
        for (number, node) in changed.nodes.iter_mut().enumerate() {
            node.is_spare = self.nodes.get(number) != Some(&true);
        }
        let mut order = Vec::new(self.alloc);
        for procedure in 0..self.cert.procedures() {
            if self.procedures.get(usize::from(procedure)) == Some(&true) {
                order.push(procedure)?;
            }
        }
        changed.written(order.as_slice())
    }
}

/// Nodes are reached; those that weren't yet are looked at.
fn reach(nodes: Standby, is_reached: &mut [bool], queue: &mut Vec<u32>) -> Result<(), AllocError> {
    let (first, after) = nodes.numbers();
    for number in first..after {
        if let Some(mark) = is_reached.get_mut(number as usize)
            && !*mark
        {
            *mark = true;
            queue.push(number)?;
        }
    }
    Ok(())
}
