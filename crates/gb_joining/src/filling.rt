//! Fills: what a loop that clears or copies has done so far. A fill that says nothing yet is offered before a store through a pointer,
//! and the checker's own steps move it and let it grow. Joins keep what holds in both states.

use crate::claims::{first_of, pointers_of, with_level};
use arrayvec::ArrayVec;
use gb_verify::gb_domain::summary::{Fact, Fill, FillEnd, Reach};
use gb_verify::gb_ops::decode::decode;
use gb_verify::gb_ops::machine::Region;
use gb_verify::gb_ops::op::{Indirect, Op, Operand, Pair, Pointer};
use gb_verify::gb_ram_bounds::covering::gives_fills;
use gb_verify::gb_ram_bounds::fills::written;
use gb_verify::{Abs, Program, Rom, Val, known_bytes};

/// A distance of 0 from the pointer.
const NO_DISTANCE: u16 = 32_768;

/// How many instructions before a store a fill is offered.
const INSTRUCTIONS_AHEAD: u8 = 8;

/// The first and the last address of work RAM and of high RAM.
const AREAS: [(u16, u16); 2] = [(0xC000, 0xDFFF), (0xFF80, 0xFFFE)];

/// A store through a pointer that comes soon.
#[derive(Clone, Copy)]
struct StoreAhead {
    pointer: Pointer,
    reach: Reach,
    value: Val,
}

/// Where a store goes by, where it does so through a pointer and reads nothing there.
fn stored_through(op: Op) -> Option<Pointer> {
    match op {
        Op::StoreA(_)
        | Op::StoreHighC
        | Op::Load(Operand::AtHl, _)
        | Op::LoadImmediate(Operand::AtHl, _) => op.pointer(),
        _ => None,
    }
}

/// What a store stores, by the registers before.
fn value_of(op: Op, state: &Abs) -> Val {
    let registers = &state.core().registers;
    match op {
        Op::LoadImmediate(_, value) => single(value),
        _ => match op.stored() {
            Some(register) => registers.get(register),
            None => registers.a,
        },
    }
}

fn single(value: u8) -> Val {
    Val {
        lo: value,
        hi: value,
        low_bits: 0,
        origin: None,
    }
}

/// Whether an instruction counts a pointer down.
fn counts_down(op: Op, pointer: Pointer) -> bool {
    match (op, pointer) {
        (Op::StoreA(Indirect::HlDecrement), Pointer::Hl)
        | (Op::DecrementPair(Pair::Hl), Pointer::Hl)
        | (Op::DecrementPair(Pair::De), Pointer::De)
        | (Op::DecrementPair(Pair::Bc), Pointer::Bc) => true,
        (Op::Decrement(Operand::Register(register)), _) => register == pointer.low(),
        _ => false,
    }
}

/// Whether what stands behind an instruction isn't what runs next.
fn is_end(op: Op) -> bool {
    matches!(
        op,
        Op::Return
            | Op::ReturnFromInterrupt
            | Op::Jump(_)
            | Op::JumpRelative(_)
            | Op::JumpHl
            | Op::Call(_)
            | Op::Restart(_)
    )
}

/// A fill of a stretch that says nothing yet, whatever its pointer is at this address.
fn empty_fill(ahead: StoreAhead, first: u16, last: u16) -> Fill {
    let value = if ahead.value.lo == 0 && ahead.value.hi == u8::MAX {
        single(0)
    } else {
        ahead.value
    };
    Fill {
        first,
        last,
        lo: value.lo,
        hi: value.hi,
        end: Some(FillEnd {
            pointer: ahead.pointer,
            reach: ahead.reach,
            offset: NO_DISTANCE,
        }),
    }
}

/// Whether two fills end at one pointer.
fn end_alike(fill: &Fill, ahead: StoreAhead) -> bool {
    match fill.end {
        Some(end) => {
            end.pointer == ahead.pointer
                && matches!(
                    (end.reach, ahead.reach),
                    (Reach::Below, Reach::Below) | (Reach::Above, Reach::Above)
                )
        }
        None => false,
    }
}

/// The parts of an area outside the stack region.
fn parts_of(area: (u16, u16), region: Region) -> [Option<(u16, u16)>; 2] {
    let (first, last) = area;
    if region.last < first || last < region.first {
        return [Some(area), None];
    }
    let below = match region.first.checked_sub(1) {
        Some(end) if first <= end => Some((first, end)),
        _ => None,
    };
    let above = match region.last.checked_add(1) {
        Some(start) if start <= last => Some((start, last)),
        _ => None,
    };
    [below, above]
}

/// The stretch of a part that a pointer still has before it.
fn ahead_of(part: (u16, u16), reach: Reach, pointer: u16) -> Option<(u16, u16)> {
    let (first, last) = match reach {
        Reach::Below => (part.0.max(pointer), part.1),
        Reach::Above => (part.0, part.1.min(pointer)),
    };
    if first <= last {
        Some((first, last))
    } else {
        None
    }
}

/// A fill, and what of it may hold of another state too: itself, or what that one says with the same end.
fn kept_fill(facts: &[Fact], old: &Abs, added: &Abs, joined: &Abs, fill: Fill) -> bool {
    let kept = joined.cells();
    [old, added].iter().all(|state| {
        gives_fills(
            first_of(facts, state.summary().level()),
            state.cells(),
            state.summary().fills(),
            &pointers_of(state),
            kept,
            &[fill],
        )
    })
}

/// Whether fills are about the same stretch, with the same end.
fn are_alike(fill: &Fill, other: &Fill) -> bool {
    let same_end = match (fill.end, other.end) {
        (None, None) => true,
        (Some(end), Some(other)) => {
            end.pointer == other.pointer
                && matches!(
                    (end.reach, other.reach),
                    (Reach::Below, Reach::Below) | (Reach::Above, Reach::Above)
                )
        }
        _ => false,
    };
    same_end && fill.first == other.first && fill.last == other.last
}

/// The fills that hold in both states: the first one's, and unless it has grown often, the other one's.
pub fn common_fills(
    facts: &[Fact],
    old: &Abs,
    added: &Abs,
    joined: &Abs,
    is_early: bool,
) -> ArrayVec<Fill, 8> {
    let mut fills: ArrayVec<Fill, 8> = ArrayVec::new();
    for fill in old.summary().fills() {
        if kept_fill(facts, old, added, joined, *fill) {
            let _ = fills.try_push(*fill);
        }
    }
    if is_early {
        for fill in added.summary().fills() {
            let is_there = fills.iter().any(|other| are_alike(fill, other));
            if !is_there && kept_fill(facts, old, added, joined, *fill) {
                let _ = fills.try_push(*fill);
            }
        }
    }
    fills
}

/// The store through a pointer that comes soon behind an address.
fn store_ahead(
    program: &Program<'_>,
    rom: &Rom<'_>,
    state: &Abs,
    address: u16,
) -> Option<StoreAhead> {
    let mut address = address;
    let mut found = None;
    for _ in 0..INSTRUCTIONS_AHEAD {
        let bytes = known_bytes(program, rom, state, address)?;
        let row = decode(&bytes)?;
        if found.is_none()
            && let Some(pointer) = stored_through(row.op)
        {
            found = Some(StoreAhead {
                pointer,
                reach: Reach::Below,
                value: value_of(row.op, state),
            });
        }
        if let Some(ahead) = found
            && counts_down(row.op, ahead.pointer)
        {
            return Some(StoreAhead {
                reach: Reach::Above,
                ..ahead
            });
        }
        if is_end(row.op) {
            return found;
        }
        address = address.checked_add(row.length.into())?;
    }
    found
}

/// Fills that say nothing yet are offered to a state that arrives before a store through a pointer, of what lies outside the stack's region.
pub fn offer_fills(
    program: &Program<'_>,
    rom: &Rom<'_>,
    region: Region,
    state: &mut Abs,
    address: u16,
) {
    let Some(ahead) = store_ahead(program, rom, state, address) else {
        return;
    };
    let pointer = pointers_of(state).get(ahead.pointer);
    let is_there = state
        .summary()
        .fills()
        .iter()
        .any(|fill| end_alike(fill, ahead));
    if pointer.first != pointer.last || is_there {
        return;
    }
    let mut fills = ArrayVec::new();
    for fill in state.summary().fills() {
        let _ = fills.try_push(*fill);
    }
    for area in AREAS {
        for part in parts_of(area, region) {
            if let Some(part) = part
                && let Some((first, last)) = ahead_of(part, ahead.reach, pointer.first)
            {
                let _ = fills.try_push(empty_fill(ahead, first, last));
            }
        }
    }
    let summary = with_level(state.summary(), state.summary().level(), fills);
    state.set_summary(summary);
}

/// A state's fills get no end any more: each is what of its stretch was filled for sure.
pub fn fix_fills(state: &mut Abs) {
    let pointers = pointers_of(state);
    let mut fills = ArrayVec::new();
    for fill in state.summary().fills() {
        let fixed = match fill.end {
            Some(end) => written(end.pointer, &pointers, *fill),
            None => Some(*fill),
        };
        if let Some(fill) = fixed {
            let _ = fills.try_push(fill);
        }
    }
    let summary = with_level(state.summary(), state.summary().level(), fills);
    state.set_summary(summary);
}
