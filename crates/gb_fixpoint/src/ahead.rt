//! What would come after an access that is refused. A run ends there, so of a loop around it the run knows the first round alone: here
//! its further rounds are gone through, as if the access were allowed. What is told by this is never part of a certificate.

use crate::types::{Run, RunNode};
use gb_joining::bounds::box_of;
use gb_joining::gb_verify::{Abs, Span, Successor, Target, WordPair};
use gb_joining::instruction::decoded;
use gb_joining::relating::hull;
use std::alloc::AllocError;

/// The most instructions that are stepped through.
const STEPS: u32 = 1024;

/// The most bytes between an access and an instruction of the same loop.
const NEAR: u16 = 48;

/// An instruction behind an access, and a state there.
#[derive(Drop)]
struct StateAhead {
    address: u16,
    state: Abs,
}

/// The state after a way that leads on within a loop around an address.
fn ahead_by(way: &Option<Successor<'_>>, around: u16) -> Option<StateAhead> {
    let Some(successor) = way else { return None };
    match successor.target {
        Target::At(address) if address.abs_diff(around) <= NEAR => Some(StateAhead {
            address,
            state: successor.state(),
        }),
        _ => None,
    }
}

/// Adds where a way leads on within a loop around an address.
fn add_way(
    way: &Option<Successor<'_>>,
    around: u16,
    left: &mut Vec<StateAhead>,
) -> Result<(), AllocError> {
    if let Some(ahead) = ahead_by(way, around) {
        left.push(ahead)?;
    }
    Ok(())
}

impl<'a> Run<'a> {
    /// The addresses that HL has at an address in further rounds of a loop around a node at which an access is refused, from the
    /// lowest to the highest. None if no way leads back there.
    pub fn span_ahead(&self, node: &RunNode, address: u16) -> Result<Option<Span>, AllocError> {
        let around = node.key.address;
        let mut all = None;
        let mut left = Vec::new(self.alloc);
        left.push(StateAhead {
            address: around,
            state: node.state.copied(),
        })?;
        for _ in 0..STEPS {
            let Some(ahead) = left.pop() else { break };
            if ahead.address == address {
                let here = box_of(WordPair::Hl, &ahead.state.core().registers);
                all = Some(match all {
                    Some(bounds) => hull(bounds, here),
                    None => here,
                });
            }
            if let Ok(row) = decoded(&self.program(), self.rom, &ahead.state, ahead.address) {
                let ways = self.ways_from(node.key.procedure, row, ahead.address, &ahead.state);
                // The last one is followed first: a branch that is taken.
                add_way(&ways.not_taken, around, &mut left)?;
                add_way(&ways.taken, around, &mut left)?;
            }
        }
        Ok(all.map(|bounds| Span {
            first: bounds.first,
            last: bounds.last,
            ..Span::one(bounds.first)
        }))
    }
}
