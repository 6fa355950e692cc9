//! Calls and interrupts: from which procedure into which.

use crate::interrupt::{INTERRUPTS, Interrupt};
use gb_explain::{
    Abs, Cert, NodeRef, Program, Rom, Rules, Successor, Target, callee_at, handler, known_bytes,
    may_come, program_of, setting_of, stack_of, successors_of, taken_by,
};
use gb_ops::decode::decode;
use std::alloc::{AllocError, Global};

/// By what another procedure is entered.
#[derive(Clone, Copy, PartialEq, Eq)]
pub enum EnteredBy {
    Call,
    Interrupt(Interrupt),
}

/// A procedure enters another one, from some of its nodes.
#[derive(Clone, Copy, PartialEq, Eq)]
pub struct CallLink {
    pub caller: u16,
    /// Which is entered; none where the caller goes on itself at the address, as version 3 allows.
    pub callee: Option<u16>,
    pub by: EnteredBy,
    /// From how many nodes.
    pub nodes: u32,
    /// The most bytes that wait on the stack below the callee's own, and the first node from which so many do.
    pub waiting: u16,
    pub node: u32,
}

/// The links of a certificate, as they are gathered: those of one caller stand together.
#[derive(Drop)]
pub(crate) struct Links {
    all: Vec<CallLink>,
    /// Where those of the last caller begin.
    first: usize,
}

/// Whether two links lead from the same procedure into the same one, by the same.
fn is_same(old: &CallLink, new: &CallLink) -> bool {
    old.caller == new.caller && old.callee == new.callee && old.by == new.by
}

/// Where in a list a link with the same ends stands.
fn place_of(links: &[CallLink], new: &CallLink) -> Option<usize> {
    for (place, old) in links.iter().enumerate() {
        if is_same(old, new) {
            return Some(place);
        }
    }
    None
}

/// A link that one more node has.
fn joined(old: CallLink, new: CallLink) -> CallLink {
    let nodes = old.nodes.saturating_add(1);
    if old.waiting < new.waiting {
        CallLink { nodes, ..new }
    } else {
        CallLink { nodes, ..old }
    }
}

impl Links {
    pub(crate) fn new(alloc: Global) -> Links {
        Links {
            all: Vec::new(alloc),
            first: 0,
        }
    }

    pub(crate) fn finish(self) -> Vec<CallLink> {
        self.all
    }

    /// Where those of a caller begin, which is the last one or a new one.
    fn begin(&mut self, caller: u16) {
        let is_new = match self.all.last() {
            Some(link) => link.caller != caller,
            None => true,
        };
        if is_new {
            self.first = self.all.len();
        }
    }

    fn add(&mut self, link: CallLink) -> Result<(), AllocError> {
        self.begin(link.caller);
        let own = self.all.get(self.first..).unwrap_or(&[]);
        let place = place_of(own, &link);
        if let Some(place) = place {
            let place = self.first.saturating_add(place);
            if let Some(old) = self.all.get_mut(place) {
                *old = joined(*old, link);
                return Ok(());
            }
        }
        self.all.push(link)?;
        Ok(())
    }
}

/// The bytes that wait below a callee's own.
fn waiting_below(cert: &Cert<'_>, held: u16, callee: Option<u16>) -> u16 {
    let taken = match callee {
        Some(callee) => u16::from(taken_by(cert, callee)),
        None => held,
    };
    held.saturating_sub(taken)
}

/// The bytes that wait below what is called: by the rules of versions 1 and 2 those that are held and the return word, by
/// those of version 3, where the return word is among the bytes that are held, those that the callee doesn't take over.
fn waiting_in_call(cert: &Cert<'_>, held: u16, callee: Option<u16>) -> u16 {
    match Rules::of(cert.version()) {
        Rules::Simple => held.saturating_add(2),
        Rules::Extended => waiting_below(cert, held, callee),
    }
}

/// The bytes that wait below a handler: the state is the one before the dispatch.
fn waiting_in_dispatch(cert: &Cert<'_>, held: u16, callee: Option<u16>) -> u16 {
    let pushed = held.saturating_add(2);
    match Rules::of(cert.version()) {
        Rules::Simple => pushed,
        Rules::Extended => waiting_below(cert, pushed, callee),
    }
}

/// The call that a successor is.
fn call_of(
    program: &Program<'_>,
    cert: &Cert<'_>,
    caller: u16,
    node: u32,
    way: &Option<Successor<'_>>,
) -> Option<CallLink> {
    let Some(successor) = way else { return None };
    let Target::Call(_) = successor.target else {
        return None;
    };
    let callee = callee_at(program, cert, setting_of(cert, caller), successor);
    let held = successor.state().items().len() as u16;
    Some(CallLink {
        caller,
        callee,
        by: EnteredBy::Call,
        nodes: 1,
        waiting: waiting_in_call(cert, held, callee),
        node,
    })
}

/// The call that a node's instruction makes. What isn't taken, and staying on HALT, calls nothing.
fn call_at(
    rom: &Rom<'_>,
    cert: &Cert<'_>,
    number: u32,
    node: &NodeRef<'_>,
    state: &Abs,
) -> Option<CallLink> {
    let program = program_of(rom, cert);
    let bytes = known_bytes(&program, rom, state, node.address())?;
    let row = decode(&bytes)?;
    let caller = node.procedure();
    let stack = stack_of(cert, caller);
    let ways = successors_of(stack, &program, rom, row, node.address(), state);
    call_of(&program, cert, caller, number, &ways.taken)
}

/// The interrupt that may come at a node.
fn interrupt_at(
    program: &Program<'_>,
    cert: &Cert<'_>,
    number: u32,
    node: &NodeRef<'_>,
    state: &Abs,
    interrupt: Interrupt,
) -> Option<CallLink> {
    let bit = interrupt.bit();
    if !may_come(bit, state.core()) {
        return None;
    }
    let caller = node.procedure();
    let setting = setting_of(cert, caller);
    let callee = handler(program, cert, setting, bit, node.address(), state);
    Some(CallLink {
        caller,
        callee,
        by: EnteredBy::Interrupt(interrupt),
        nodes: 1,
        waiting: waiting_in_dispatch(cert, state.items().len() as u16, callee),
        node: number,
    })
}

/// Adds the interrupts that may come at a node.
fn add_interrupts(
    program: &Program<'_>,
    cert: &Cert<'_>,
    number: u32,
    node: &NodeRef<'_>,
    state: &Abs,
    links: &mut Links,
) -> Result<(), AllocError> {
    if !state.core().ime.on {
        return Ok(());
    }
    for interrupt in INTERRUPTS {
        if let Some(link) = interrupt_at(program, cert, number, node, state, *interrupt) {
            links.add(link)?;
        }
    }
    Ok(())
}

/// Adds what a node enters.
pub(crate) fn add_links(
    rom: &Rom<'_>,
    cert: &Cert<'_>,
    number: u32,
    node: &NodeRef<'_>,
    state: &Abs,
    links: &mut Links,
) -> Result<(), AllocError> {
    if let Some(link) = call_at(rom, cert, number, node, state) {
        links.add(link)?;
    }
    add_interrupts(&program_of(rom, cert), cert, number, node, state, links)
}
