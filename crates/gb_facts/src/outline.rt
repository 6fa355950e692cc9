//! What a certificate says by itself, without its cartridge.

use crate::comparison::runs_beyond;
use crate::depth::way_from;
use crate::facts::Facts;
use crate::interrupt::{INTERRUPTS, Interrupt};
use crate::procedure::place_of;
use gb_explain::{Abs, Cert, NodeRef, Range, Rules, may_come};
use gb_ops::machine::Region;
use std::alloc::{AllocError, Global};

/// The banks that a cartridge may have.
const BANKS: usize = 512;

/// All procedures that begin at one place; main has a place of its own.
#[derive(Drop)]
pub struct Sketch {
    pub is_main: bool,
    pub bank: u16,
    pub address: u16,
    /// The bytes of stack that the certificate allows them, the return address among them.
    pub need: u16,
    /// The RAM that they may write.
    pub ranges: Vec<Range>,
    /// The interrupts that may come in them.
    pub comings: Vec<Interrupt>,
}

/// What a certificate says by itself.
#[derive(Drop)]
pub struct Outline {
    pub region: Region,
    /// Where its procedures begin, main first.
    pub sketches: Vec<Sketch>,
    /// For each procedure, which of the sketches it is part of.
    pub places: Vec<usize>,
    /// For each bank, whether it has certified code.
    pub banks: Vec<bool>,
}

/// Where the procedures that begin at a place stand among the sketches.
fn sketch_at(sketches: &[Sketch], is_main: bool, bank: u16, address: u16) -> Option<usize> {
    for (place, sketch) in sketches.iter().enumerate() {
        if sketch.is_main == is_main && sketch.bank == bank && sketch.address == address {
            return Some(place);
        }
    }
    None
}

/// The bytes that a procedure is allowed, its return address among them. By the rules of versions 1 and 2 it is counted apart.
fn need_of(cert: &Cert<'_>, number: u16, need: u16) -> u16 {
    match Rules::of(cert.version()) {
        Rules::Simple if number > 0 => need.saturating_add(2),
        _ => need,
    }
}

/// Adds ranges.
fn add_ranges(sketch: &mut Sketch, ranges: &[Range]) -> Result<(), AllocError> {
    for range in ranges {
        sketch.ranges.push(*range)?;
    }
    Ok(())
}

/// Adds what a procedure says to a sketch.
fn add_claim(sketch: &mut Sketch, need: u16, ranges: &[Range]) -> Result<(), AllocError> {
    sketch.need = sketch.need.max(need);
    add_ranges(sketch, ranges)
}

impl Sketch {
    /// The RAM that they may write, in order, as runs of addresses one after another.
    ///
    /// # Errors
    ///
    /// Where memory ran out.
    pub fn written(&self, alloc: Global) -> Result<Vec<Range>, AllocError> {
        runs_beyond(alloc, self.ranges.as_slice(), &[])
    }
}

impl Outline {
    /// A new sketch, of which nothing is said yet, and where it stands.
    fn add_sketch(
        &mut self,
        alloc: Global,
        is_main: bool,
        bank: u16,
        address: u16,
    ) -> Result<usize, AllocError> {
        let place = self.sketches.len();
        self.sketches.push(Sketch {
            is_main,
            bank,
            address,
            need: 0,
            ranges: Vec::new(alloc),
            comings: Vec::new(alloc),
        })?;
        Ok(place)
    }

    /// Adds a procedure.
    fn add_procedure(
        &mut self,
        alloc: Global,
        cert: &Cert<'_>,
        number: u16,
    ) -> Result<(), AllocError> {
        if number >= cert.procedures() {
            return Ok(());
        }
        let procedure = cert.procedure(number);
        let (bank, address) = place_of(cert, procedure.entry());
        let is_main = number == 0;
        let place = match sketch_at(self.sketches.as_slice(), is_main, bank, address) {
            Some(place) => place,
            None => self.add_sketch(alloc, is_main, bank, address)?,
        };
        self.places.push(place)?;
        match self.sketches.get_mut(place) {
            Some(sketch) => {
                let need = need_of(cert, number, procedure.need());
                add_claim(sketch, need, procedure.ranges().as_slice())
            }
            None => Ok(()),
        }
    }

    /// Says that an interrupt may come in a procedure.
    fn add_coming(&mut self, procedure: u16, interrupt: Interrupt) -> Result<(), AllocError> {
        let Some(place) = self.places.get(usize::from(procedure)) else {
            return Ok(());
        };
        if let Some(sketch) = self.sketches.get_mut(*place) {
            if !sketch.comings.contains(&interrupt) {
                sketch.comings.push(interrupt)?;
            }
        }
        Ok(())
    }

    /// Adds the interrupts that may come at a node.
    fn add_comings(&mut self, node: &NodeRef<'_>, state: &Abs) -> Result<(), AllocError> {
        for interrupt in INTERRUPTS {
            if may_come(interrupt.bit(), state.core()) {
                self.add_coming(node.procedure(), *interrupt)?;
            }
        }
        Ok(())
    }

    /// Adds a node.
    fn add_node(&mut self, cert: &Cert<'_>, number: u32) -> Result<(), AllocError> {
        if number >= cert.nodes() {
            return Ok(());
        }
        let node = cert.node(number);
        if node.address() < 0x8000 {
            if let Some(bank) = self.banks.get_mut(usize::from(node.bank())) {
                *bank = true;
            }
        }
        let state = node.state();
        self.add_comings(&node, &state)
    }

    /// Adds all procedures.
    fn add_procedures(&mut self, alloc: Global, cert: &Cert<'_>) -> Result<(), AllocError> {
        for number in 0..cert.procedures() {
            self.add_procedure(alloc, cert, number)?;
        }
        Ok(())
    }

    /// Adds all nodes.
    fn add_nodes(&mut self, cert: &Cert<'_>) -> Result<(), AllocError> {
        for number in 0..cert.nodes() {
            self.add_node(cert, number)?;
        }
        Ok(())
    }

    /// What a certificate says by itself, right or wrong.
    ///
    /// # Errors
    ///
    /// Where memory ran out.
    pub fn of(alloc: Global, cert: &Cert<'_>) -> Result<Outline, AllocError> {
        let mut outline = Outline {
            region: cert.region(),
            sketches: Vec::new(alloc),
            places: Vec::new(alloc),
            banks: vec![in alloc; false; BANKS]?,
        };
        outline.add_procedures(alloc, cert)?;
        outline.add_nodes(cert)?;
        Ok(outline)
    }

    /// The bytes of stack that are allowed in all.
    pub fn need(&self) -> u16 {
        match self.sketches.first() {
            Some(main) => main.need,
            None => 0,
        }
    }

    /// The deepest way, by the sketches of its procedures. The facts are those of the same certificate.
    ///
    /// # Errors
    ///
    /// Where memory ran out.
    pub fn way(&self, alloc: Global, facts: &Facts) -> Result<Vec<usize>, AllocError> {
        let mut way = Vec::new(alloc);
        for number in &way_from(alloc, facts, 0)? {
            if let Some(place) = self.places.get(usize::from(*number)) {
                way.push(*place)?;
            }
        }
        Ok(way)
    }
}
