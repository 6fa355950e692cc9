//! Bytes of the stack whose source a slice seeks: back from where they were popped, or loaded by a known address, to where they
//! were pushed or stored.

use crate::sources::{loaded, loaded_by, sources, stacked, without};
use crate::spots::{op_at, pointed_at};
use gb_fixpoint::gb_ops::op::{Op, Operand, Pair, Pointer, Register, StackPair};
use gb_fixpoint::register_set::RegisterSet;
use gb_fixpoint::types::{Run, Spot};
use std::alloc::{AllocError, Global};
use std::collections::BTreeSet;

/// The bytes by their places on the stack: 0 is the first that was pushed.
#[derive(Drop)]
pub struct Waiting {
    places: BTreeSet<usize>,
}

/// How many bytes are on the stack at the first node of a spot.
fn held_at(run: &Run<'_>, spot: Spot) -> Option<usize> {
    let number = run.nodes_at(spot).first()?;
    let node = run.nodes.get(*number)?;
    Some(node.state.items().len())
}

/// The place on the stack of the byte at HL, where both are known.
pub fn place_at_hl(run: &Run<'_>, spot: Spot) -> Option<usize> {
    let address = pointed_at(run, spot, Pointer::Hl)?;
    let base = usize::from(run.base_of(spot.procedure));
    let above = usize::from(address).saturating_add(1);
    if address < run.configuration.region.first || base < above {
        None
    } else {
        Some(base.saturating_sub(above))
    }
}

/// Whether a byte of the stack is known in each node at a spot.
fn is_known_at(run: &Run<'_>, spot: Spot, place: usize) -> bool {
    run.nodes_at(spot).iter().all(|number| match run.nodes.get(*number) {
        Some(node) => match node.state.items().get(place) {
            Some(item) => item.lo == item.hi,
            None => false,
        },
        None => false,
    })
}

/// What an instruction stores at HL: a register, or none where that is a number.
fn stored_at_hl(op: Op) -> Option<Option<Register>> {
    match op {
        Op::LoadImmediate(Operand::AtHl, _) => Some(None),
        _ if op.pointer() == Some(Pointer::Hl) => Some(Some(op.stored()?)),
        _ => None,
    }
}

/// Whether an instruction may change bytes of the stack, or how many there are.
pub fn may_change_stack(op: Op) -> bool {
    match op {
        Op::Push(_)
        | Op::Pop(_)
        | Op::Call(_)
        | Op::CallIf(..)
        | Op::Restart(_)
        | Op::Return
        | Op::ReturnIf(_)
        | Op::ReturnFromInterrupt
        | Op::AddSp(_)
        | Op::LoadSpHl
        | Op::LoadPair(Pair::Sp, _)
        | Op::IncrementPair(Pair::Sp)
        | Op::DecrementPair(Pair::Sp)
        | Op::StoreA(_)
        | Op::StoreSp(_)
        | Op::StoreAbsolute(_)
        | Op::Load(Operand::AtHl, _)
        | Op::LoadImmediate(Operand::AtHl, _)
        | Op::Increment(Operand::AtHl)
        | Op::Decrement(Operand::AtHl)
        | Op::Shift(_, Operand::AtHl)
        | Op::Reset(_, Operand::AtHl)
        | Op::Set(_, Operand::AtHl) => true,
        _ => false,
    }
}

impl Waiting {
    /// None is sought.
    pub fn new(alloc: Global) -> Waiting {
        Waiting {
            places: BTreeSet::new(alloc),
        }
    }

    pub fn is_empty(&self) -> bool {
        self.places.is_empty()
    }

    /// What is known at a spot needs no source.
    pub fn keep_open(
        &mut self,
        alloc: Global,
        run: &Run<'_>,
        spot: Spot,
    ) -> Result<(), AllocError> {
        let mut open = BTreeSet::new(alloc);
        for place in self.places.iter() {
            if !is_known_at(run, spot, *place) {
                open.insert(*place)?;
            }
        }
        self.places = open;
        Ok(())
    }

    /// Behind POP: the bytes that wanted registers were popped from are sought.
    fn pop(
        &mut self,
        pair: StackPair,
        held: usize,
        wanted: &RegisterSet,
    ) -> Result<RegisterSet, AllocError> {
        let mut rest = *wanted;
        let mut above: usize = 2;
        for register in stacked(pair) {
            if let Some(register) = register
                && wanted.contains(register)
            {
                self.places.insert(held.saturating_sub(above))?;
                rest = without(&rest, register);
            }
            above = above.saturating_sub(1);
        }
        Ok(rest)
    }

    /// Behind PUSH: the registers whose bytes are sought are wanted. None where one of the bytes is F.
    fn push(&mut self, pair: StackPair, held: usize, wanted: &RegisterSet) -> Option<RegisterSet> {
        let mut more = *wanted;
        let mut place = held;
        for register in stacked(pair) {
            if self.places.remove(&place) {
                more.insert(register?);
            }
            place = place.saturating_add(1);
        }
        Some(more)
    }

    /// Behind a store at HL, whose byte is sought no more.
    fn store(&mut self, source: Option<Register>, wanted: &RegisterSet) -> RegisterSet {
        let mut more = *wanted;
        if let Some(register) = source {
            more.insert(register);
        }
        more
    }

    /// What an instruction at a spot takes off the stack, puts there, loads or stores there by HL: the registers that are wanted
    /// before it. None where it isn't one of these.
    fn followed(
        &mut self,
        run: &Run<'_>,
        spot: Spot,
        op: Op,
        wanted: &RegisterSet,
    ) -> Result<Option<RegisterSet>, AllocError> {
        let Some(held) = held_at(run, spot) else {
            return Ok(None);
        };
        match op {
            Op::Pop(pair) => return Ok(Some(self.pop(pair, held, wanted)?)),
            Op::Push(pair) => return Ok(self.push(pair, held, wanted)),
            Op::Call(_) | Op::Restart(_) if wanted.is_empty() => return Ok(Some(*wanted)),
            _ => {}
        }
        let Some(place) = place_at_hl(run, spot) else {
            return Ok(None);
        };
        if loaded_by(op, wanted) == Some(Pointer::Hl)
            && let Some(target) = loaded(op)
        {
            self.places.insert(place)?;
            return Ok(Some(without(wanted, target)));
        }
        match stored_at_hl(op) {
            Some(source) if self.places.remove(&place) => Ok(Some(self.store(source, wanted))),
            _ => Ok(None),
        }
    }

    /// The registers before an instruction at a spot from which the wanted ones and the bytes that are sought get their values.
    /// None where they come from elsewhere.
    pub fn before(
        &mut self,
        run: &Run<'_>,
        spot: Spot,
        wanted: &RegisterSet,
    ) -> Result<Option<RegisterSet>, AllocError> {
        let Some(op) = op_at(run, spot) else {
            return Ok(None);
        };
        let before = match self.followed(run, spot, op, wanted)? {
            Some(before) => Some(before),
            None => sources(op, wanted),
        };
        let held = held_at(run, spot).unwrap_or(0);
        // A byte that wasn't on the stack before came there otherwise.
        if self.places.iter().any(|place| held <= *place) {
            return Ok(None);
        }
        Ok(before)
    }
}
