//! All facts, and how they are gathered.

use crate::code::{CodeMap, CodeRun};
use crate::depth::{Bound, StackStep, settle, steps_from};
use crate::link::{CallLink, Links, add_links};
use crate::procedure::{ProcedureFacts, all_declared, count_node};
use gb_explain::{Cert, Rom, Verdict, check, program_of};
use gb_ops::machine::Region;
use std::alloc::{AllocError, Global};

/// What there is to say of a certificate for a cartridge.
#[derive(Drop)]
pub struct Facts {
    /// The checker's own verdict.
    pub verdict: Verdict,
    pub version: u8,
    pub region: Region,
    /// The ROM banks of the cartridge.
    pub banks: u16,
    pub nodes: u32,
    /// Where certified code lies, in order of bank and address.
    pub code: Vec<CodeRun>,
    /// The procedures, by their numbers.
    pub procedures: Vec<ProcedureFacts>,
    /// Calls and interrupts, in order of callers.
    pub links: Vec<CallLink>,
    /// Whether the procedures' depths are known.
    pub bound: Bound,
}

/// What is gathered from the nodes.
#[derive(Drop)]
struct Gathered {
    map: CodeMap,
    procedures: Vec<ProcedureFacts>,
    links: Links,
}

/// Gathers what a node says.
fn gather_node(
    rom: &Rom<'_>,
    cert: &Cert<'_>,
    number: u32,
    gathered: &mut Gathered,
) -> Result<(), AllocError> {
    if number >= cert.nodes() {
        return Ok(());
    }
    let node = cert.node(number);
    let state = node.state();
    gathered
        .map
        .mark_node(&program_of(rom, cert), rom, &node, &state);
    count_node(&mut gathered.procedures, number, &node, &state);
    add_links(rom, cert, number, &node, &state, &mut gathered.links)
}

/// Gathers what all nodes say.
fn gather_nodes(rom: &Rom<'_>, cert: &Cert<'_>, gathered: &mut Gathered) -> Result<(), AllocError> {
    for number in 0..cert.nodes() {
        gather_node(rom, cert, number, gathered)?;
    }
    Ok(())
}

/// What the nodes say.
fn gathered_from(alloc: Global, rom: &Rom<'_>, cert: &Cert<'_>) -> Result<Gathered, AllocError> {
    let mut gathered = Gathered {
        map: CodeMap::new(alloc, rom)?,
        procedures: all_declared(alloc, cert)?,
        links: Links::new(alloc),
    };
    gather_nodes(rom, cert, &mut gathered)?;
    Ok(gathered)
}

impl Facts {
    /// The facts of a certificate for a cartridge, right or wrong. The verdict is the checker's.
    ///
    /// # Errors
    ///
    /// Where memory ran out.
    pub fn of(alloc: Global, rom: &Rom<'_>, cert: &Cert<'_>) -> Result<Facts, AllocError> {
        let Gathered {
            map,
            mut procedures,
            links,
        } = gathered_from(alloc, rom, cert)?;
        let links = links.finish();
        let bound = settle(&mut procedures, links.as_slice());
        let code = map.runs(alloc, rom.banks())?;
        Ok(Facts {
            verdict: check(rom, cert),
            version: cert.version(),
            region: cert.region(),
            banks: rom.banks(),
            nodes: cert.nodes(),
            code,
            procedures,
            links,
            bound,
        })
    }

    /// The step that a procedure's deepest way begins with; the next one is that of the link's callee.
    pub fn step(&self, procedure: u16) -> Option<StackStep> {
        steps_from(self.procedures.as_slice(), self.links.as_slice(), procedure)
    }

    /// How many steps of a way to a procedure's greatest depth are followed: as many as there are procedures, or as there can be in
    /// versions 1 to 3. Only a way through a circle has more.
    pub fn longest_way(&self) -> usize {
        self.procedures.len().max(256)
    }

    /// The addresses of the stack region.
    pub fn room(&self) -> u32 {
        let Region { first, last } = self.region;
        u32::from(last)
            .saturating_sub(u32::from(first))
            .saturating_add(1)
    }
}
