//! Which nodes of an address stand for a state. A node stands only for states that know the value of each register of which it
//! knows one value alone, so nodes are sought by these values: where an address has a node for each value, few are tried.

use gb_draft::gb_ops::registers::Registers;
use gb_draft::{
    Abs, Cert, KnownRegisters, Program, REGISTERS, RegisterSet, Val, covers, covers_core,
};
use std::alloc::{AllocError, Global};
use std::collections::HashMap;

/// Which nodes of an address stand for a state.
#[derive(Clone, Copy, PartialEq, Eq)]
pub(crate) enum Standby {
    /// This one.
    One(u32),
    /// Those from a first one to before another one, each for some values of a register.
    Several { first: u32, after: u32 },
}

impl Standby {
    /// The number of the first node, and the one after the last.
    pub(crate) fn numbers(self) -> (u32, u32) {
        match self {
            Standby::One(number) => (number, number.saturating_add(1)),
            Standby::Several { first, after } => (first, after),
        }
    }
}

/// The first node of an address, and the values of registers that a node there knows.
#[derive(Clone, Copy, PartialEq, Eq, Hash)]
struct AlikeKey {
    first: u32,
    known: KnownRegisters,
}

/// The nodes of a certificate by the values that they know, so that those are found that stand for a state.
#[derive(Drop)]
pub(crate) struct Standing {
    /// By the first node of an address, each set of registers whose values a node there knows.
    kinds: HashMap<u32, Vec<RegisterSet>>,
    /// The nodes that know the same values, in their order.
    alike: HashMap<AlikeKey, Vec<u32>>,
    /// By the first node of an address, the one there that was found last.
    last: Vec<u32>,
}

impl Standing {
    /// The nodes of a certificate, of which none was found yet.
    pub(crate) fn of(alloc: Global, cert: &Cert<'_>) -> Result<Standing, AllocError> {
        let mut standing = Standing {
            kinds: HashMap::new(alloc),
            alike: HashMap::new(alloc),
            last: vec![in alloc; 0u32; cert.nodes() as usize]?,
        };
        let mut place = None;
        let mut first = 0;
        for number in 0..cert.nodes() {
            let node = cert.node(number);
            let here = (node.procedure(), node.address());
            if place != Some(here) {
                place = Some(here);
                first = number;
            }
            standing.add(first, number, &node.core().registers)?;
        }
        Ok(standing)
    }

    /// One more node of the address that begins with a first one.
    fn add(
        &mut self,
        first: u32,
        number: u32,
        registers: &Registers<Val>,
    ) -> Result<(), AllocError> {
        let kind = known_among(registers);
        let kinds = self.kinds.entry(first)?.or_default();
        if !kinds.contains(&kind) {
            kinds.push(kind)?;
        }
        let known = KnownRegisters::of(registers, &kind);
        self.alike
            .entry(AlikeKey { first, known })?
            .or_default()
            .push(number)?;
        Ok(())
    }

    /// The number of the first node that stands for a state, among those of an address from one number to before another one.
    fn first_standing(
        &self,
        program: &Program<'_>,
        cert: &Cert<'_>,
        first: u32,
        numbers: (u32, u32),
        state: &Abs,
    ) -> Option<u32> {
        let (from, mut before) = numbers;
        let mut best = None;
        for kind in self.kinds.get(&first)? {
            let known = KnownRegisters::of(&state.core().registers, kind);
            if let Some(alike) = self.alike.get(&AlikeKey { first, known })
                && let Some(number) = first_among(
                    program,
                    cert,
                    alike.as_slice(),
                    (from, before),
                    state,
                )
            {
                before = number;
                best = Some(number);
            }
        }
        best
    }

    /// The nodes of a procedure at an address that stand for a state. The search begins after the one that was found there
    /// last: nodes lead to others in their order.
    pub(crate) fn standing_for(
        &mut self,
        program: &Program<'_>,
        cert: &Cert<'_>,
        procedure: u16,
        address: u16,
        state: &Abs,
    ) -> Option<Standby> {
        let found = cert.find(procedure, address).found;
        let near = match self.last.get(found.first as usize) {
            Some(near) => (*near).max(found.first).min(found.after),
            None => found.first,
        };
        let behind = (near, found.after);
        let one = match self.first_standing(program, cert, found.first, behind, state) {
            Some(number) => Some(number),
            None => {
                let to_it = (found.first, near);
                self.first_standing(program, cert, found.first, to_it, state)
            }
        };
        if let Some(number) = one {
            if let Some(near) = self.last.get_mut(found.first as usize) {
                *near = number;
            }
            return Some(Standby::One(number));
        }
        if found.first < found.after {
            Some(Standby::Several {
                first: found.first,
                after: found.after,
            })
        } else {
            None
        }
    }
}

/// The registers of which one value alone is possible.
fn known_among(registers: &Registers<Val>) -> RegisterSet {
    let mut known = RegisterSet::empty();
    for register in REGISTERS {
        let val = registers.get(register);
        if val.lo == val.hi {
            known.insert(register);
        }
    }
    known
}

/// Whether the node with a number stands for a state.
fn is_standing(program: &Program<'_>, cert: &Cert<'_>, number: u32, state: &Abs) -> bool {
    if number >= cert.nodes() {
        return false;
    }
    let node = cert.node(number);
    covers_core(program.kind, state.core(), &node.core()) && covers(program, state, &node.state())
}

/// The first of some nodes that stands for a state, from one number to before another one. They are in order.
fn first_among(
    program: &Program<'_>,
    cert: &Cert<'_>,
    alike: &[u32],
    numbers: (u32, u32),
    state: &Abs,
) -> Option<u32> {
    let (from, before) = numbers;
    let place = match alike.binary_search(&from) {
        Ok(place) => place,
        Err(place) => place,
    };
    for number in alike.get(place..)? {
        if *number >= before {
            return None;
        }
        if is_standing(program, cert, *number, state) {
            return Some(*number);
        }
    }
    None
}
