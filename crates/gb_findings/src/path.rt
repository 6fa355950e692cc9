//! The way by which a node was first reached.

use gb_fixpoint::code_point::CodePoint;
use gb_fixpoint::known_bank;
use gb_fixpoint::register_set::{REGISTERS, RegisterSet};
use gb_fixpoint::types::{Run, RunNode};
use std::alloc::{AllocError, Global};

/// The most segments of a path that are kept: the last ones.
const SEGMENTS: usize = 12;

/// Addresses of one bank that were gone through one after another.
#[derive(Clone, Copy)]
pub struct Segment {
    /// Where it is known; RAM has none.
    pub bank: Option<u16>,
    pub first: u16,
    pub last: u16,
}

/// Where a path begins.
#[derive(Clone, Copy)]
pub enum Start {
    PowerUp,
    /// A call here, of a procedure at the target.
    Call { from: CodePoint, target: CodePoint },
    /// An interrupt here, handled at the target.
    Interrupt { from: CodePoint, target: CodePoint },
}

/// The addresses from power-up, or from the last call or interrupt.
#[derive(Drop)]
pub struct Path {
    pub start: Start,
    pub segments: Vec<Segment>,
    /// Segments at the beginning are left out.
    pub is_cut: bool,
}

/// The bank that a node's state shows at its address, where it is known; RAM has none.
pub fn bank_of(run: &Run<'_>, node: &RunNode) -> Option<u16> {
    let address = node.key.address;
    if address < 0x8000 {
        known_bank(run.rom, &node.state.core().ctl, address)
    } else {
        None
    }
}

/// Whether a procedure handles an interrupt.
pub fn is_handler(run: &Run<'_>, number: usize) -> bool {
    match run.procedures.get(number) {
        Some(procedure) => procedure.key.is_handler,
        None => false,
    }
}

/// A node, if there is one by that number.
pub fn node_at<'a>(run: &'a Run<'_>, number: Option<usize>) -> Option<&'a RunNode> {
    run.nodes.get(number?)
}

/// How many values some registers have at a node, beyond one for each.
fn width_of(node: &RunNode, registers: &RegisterSet) -> u32 {
    let values = node.state.core().registers;
    let mut width: u32 = 0;
    for register in REGISTERS {
        let val = values.get(register);
        if registers.contains(register) {
            width = width.saturating_add(u32::from(val.hi.saturating_sub(val.lo)));
        }
    }
    width
}

/// From where the procedure of a first node was entered: where it doesn't know some registers, by the call that knows least of them. Else
/// by the first one, as where each call knows them.
pub(crate) fn entered_from(
    run: &Run<'_>,
    entry: &RunNode,
    registers: &RegisterSet,
) -> Option<usize> {
    let first = entry.via?;
    let procedure = run.procedures.get(entry.key.procedure)?;
    if procedure.key.is_handler || width_of(entry, registers) == 0 {
        return Some(first);
    }
    let mut from = first;
    let mut widest = run
        .nodes
        .get(first)
        .map_or(0, |node| width_of(node, registers));
    for site in &procedure.sites {
        let width = run
            .nodes
            .get(*site)
            .map_or(0, |node| width_of(node, registers));
        if width > widest {
            from = *site;
            widest = width;
        }
    }
    Some(from)
}

/// Where the procedure of a first node was entered from.
fn start_of(run: &Run<'_>, entry: &RunNode, registers: &RegisterSet) -> Start {
    let target = entry.key.point();
    let Some(from) = node_at(run, entered_from(run, entry, registers)) else {
        return Start::PowerUp;
    };
    let from = from.key.point();
    if is_handler(run, entry.key.procedure) {
        Start::Interrupt { from, target }
    } else {
        Start::Call { from, target }
    }
}

/// Adds an address to a path that is gathered backwards: the last segment begins at it, or a new one.
fn add_before(
    segments: &mut Vec<Segment>,
    bank: Option<u16>,
    address: u16,
) -> Result<(), AllocError> {
    if let Some(segment) = segments.last_mut() {
        let is_near = address < segment.first && segment.first - address <= 3;
        if is_near && segment.bank == bank {
            segment.first = address;
            return Ok(());
        }
    }
    segments.push(Segment {
        bank,
        first: address,
        last: address,
    })?;
    Ok(())
}

/// Adds the segments of the path to a node, backwards, and answers where it begins.
fn gather(
    run: &Run<'_>,
    number: usize,
    registers: &RegisterSet,
    segments: &mut Vec<Segment>,
) -> Result<Start, AllocError> {
    let mut at = Some(number);
    for _ in 0..=run.nodes.len() {
        let Some(node) = node_at(run, at) else { break };
        add_before(segments, bank_of(run, node), node.key.address)?;
        if node.key.is_entry {
            return Ok(start_of(run, node, registers));
        }
        at = node.via;
    }
    Ok(Start::PowerUp)
}

impl Path {
    /// The path to a node at which some registers matter.
    pub fn to(
        alloc: Global,
        run: &Run<'_>,
        number: usize,
        registers: &RegisterSet,
    ) -> Result<Path, AllocError> {
        let mut segments = Vec::new(alloc);
        let start = gather(run, number, registers, &mut segments)?;
        let is_cut = segments.len() > SEGMENTS;
        segments.truncate(SEGMENTS);
        segments.reverse();
        Ok(Path {
            start,
            segments,
            is_cut,
        })
    }
}
