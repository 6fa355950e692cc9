//! Changes that aim at what version 4 can say: facts, levels, fills, cells, places of the windows, what is kept, origins and
//! counts. The certificate is written again after each, so that most of them can be read.

use crate::parts::{CertificateParts, PartProcedure};
use crate::random::Random;
use arrayvec::ArrayVec;
use gb_domain::types::Abs;
use gb_domain::{
    BankShadows, Cell, Fact, Fill, FillEnd, Origin, Reach, Shadows, StridedInterval, Summary, Val,
};
use gb_ops::op::{Pointer, Register};
use gb_printed::gb_calls::gb_cert::Cert;
use std::alloc::Global;
use std::io;

/// One more, one less, or any in the areas that version 4 speaks of.
fn changed_address(random: &mut Random, address: u16) -> u16 {
    match random.below(5) {
        0 | 1 => address.wrapping_add(1),
        2 => address.wrapping_sub(1),
        3 => u16::from_be_bytes([0xC0, random.byte()]),
        _ => u16::from_be_bytes([0xFF, random.byte() | 0x80]),
    }
}

/// Another interval: a bound or the low bits, as they come, or mostly so that they fit.
fn changed_interval(random: &mut Random, value: StridedInterval) -> StridedInterval {
    let mut changed = value;
    match random.below(4) {
        0 => changed.lo = random.changed(value.lo),
        1 => changed.hi = random.changed(value.hi),
        2 => changed.count = random.byte() % 8,
        _ => changed.lo = value.hi,
    }
    if random.below(4) != 0 && changed.count == value.count {
        changed.count = 0;
    }
    changed
}

fn changed_val(random: &mut Random, val: Val) -> Val {
    let interval = StridedInterval {
        lo: val.lo,
        hi: val.hi,
        count: val.low_bits,
    };
    let changed = changed_interval(random, interval);
    Val {
        lo: changed.lo,
        hi: changed.hi,
        low_bits: changed.count,
        origin: val.origin,
    }
}

/// None, or what may have been held when the procedure was entered.
fn any_origin(random: &mut Random) -> Option<Origin> {
    match random.below(10) {
        0 | 1 => None,
        2 => Some(Origin::A),
        3 => Some(Origin::B),
        4 => Some(Origin::L),
        5 => Some(Origin::Kept(0)),
        6 => Some(Origin::Kept(1)),
        7 => Some(Origin::MarkHigh),
        8 => Some(Origin::MarkLow),
        _ => Some(Origin::Kept(random.byte() % 16)),
    }
}

fn any_register(random: &mut Random) -> Register {
    match random.below(7) {
        0 => Register::A,
        1 => Register::B,
        2 => Register::C,
        3 => Register::D,
        4 => Register::E,
        5 => Register::H,
        _ => Register::L,
    }
}

fn any_pointer(random: &mut Random) -> Pointer {
    match random.below(4) {
        0 => Pointer::Bc,
        1 => Pointer::De,
        2 => Pointer::Hl,
        _ => Pointer::HighC,
    }
}

/// Changes a fact, takes one out, or exchanges two that follow one another.
fn change_facts(random: &mut Random, facts: &mut Vec<Fact>) {
    if facts.is_empty() {
        return;
    }
    let number = random.below(facts.len());
    let behind = (number + 1) % facts.len();
    let (fact, next) = (facts[number], facts[behind]);
    let mut changed = fact;
    match random.below(8) {
        0 => changed.first = changed_address(random, fact.first),
        1 => changed.last = changed_address(random, fact.last),
        2 => changed.step = random.changed(fact.step),
        3 => {
            facts[behind] = fact;
            changed = next;
        }
        4 => {
            facts.pop();
            return;
        }
        _ => changed.value = changed_interval(random, fact.value),
    }
    facts[number] = changed;
}

/// Changes which addresses a procedure keeps.
fn change_kept(random: &mut Random, kept: &mut ArrayVec<u16, 16>) {
    match random.below(4) {
        0 => {
            let _ = kept.pop();
        }
        1 => {
            let _ = kept.try_push(u16::from_be_bytes([0xC0, random.byte()]));
        }
        _ => {
            let number = random.below(16);
            if let Some(address) = kept.as_mut_slice().get_mut(number) {
                *address = changed_address(random, *address);
            }
        }
    }
}

/// Changes which addresses a procedure keeps, where it writes, or how much stack it needs.
fn change_procedure(random: &mut Random, procedure: &mut PartProcedure) {
    let number = random.below(2);
    match random.below(6) {
        0 => procedure.need = procedure.need.wrapping_add(1),
        1 => {
            let _ = procedure.ranges.pop();
        }
        2 => {
            if let Some(range) = procedure.ranges.as_mut_slice().get_mut(number) {
                range.first = changed_address(random, range.first);
            }
        }
        _ => change_kept(random, &mut procedure.kept),
    }
}

/// A level: of all facts, one more, one less, or any.
fn changed_level(random: &mut Random, level: u16, facts: usize) -> u16 {
    let most = u16::try_from(facts).unwrap_or(u16::MAX);
    match random.below(4) {
        0 => most,
        1 => level.saturating_add(1),
        2 => level.saturating_sub(1),
        _ => u16::from(random.byte()) % most.saturating_add(1).max(1),
    }
}

fn changed_end(random: &mut Random, end: Option<FillEnd>) -> Option<FillEnd> {
    let Some(mut end) = end else {
        return Some(FillEnd {
            pointer: any_pointer(random),
            reach: Reach::Below,
            offset: 0x8000,
        });
    };
    match random.below(8) {
        0 => return None,
        1 => end.pointer = any_pointer(random),
        2 => {
            end.reach = match end.reach {
                Reach::Below => Reach::Above,
                Reach::Above => Reach::Below,
            };
        }
        3 | 4 => end.offset = end.offset.wrapping_sub(1),
        _ => end.offset = end.offset.wrapping_add(1),
    }
    Some(end)
}

fn changed_fill(random: &mut Random, fill: Fill) -> Fill {
    let mut changed = fill;
    match random.below(6) {
        0 => changed.first = changed_address(random, fill.first),
        1 => changed.last = changed_address(random, fill.last),
        2 => changed.lo = random.changed(fill.lo),
        3 => changed.hi = random.changed(fill.hi),
        _ => changed.end = changed_end(random, fill.end),
    }
    changed
}

/// Some fills, one of them changed, or one more of a byte in work RAM.
fn changed_fills(random: &mut Random, fills: &[Fill]) -> ArrayVec<Fill, 8> {
    let mut changed = ArrayVec::new();
    let number = random.below(fills.len().saturating_add(1).max(1));
    for (place, fill) in fills.iter().enumerate() {
        let fill = if place == number {
            changed_fill(random, *fill)
        } else {
            *fill
        };
        let _ = changed.try_push(fill);
    }
    if number == fills.len() {
        let first = u16::from_be_bytes([0xC0, random.byte()]);
        let value = random.byte();
        let _ = changed.try_push(Fill {
            first,
            last: first.saturating_add(u16::from(random.byte() % 4)),
            lo: value,
            hi: value,
            end: None,
        });
    }
    changed
}

/// The address of one of these cells; any in high RAM where there is none.
fn any_address(random: &mut Random, cells: &[Cell]) -> u16 {
    let number = random.below(cells.len().max(1));
    match cells.get(number) {
        Some(cell) => cell.address,
        None => u16::from_be_bytes([0xFF, random.byte() | 0x80]),
    }
}

fn changed_places(random: &mut Random, places: Shadows, cells: &[Cell]) -> Shadows {
    let mut changed = places;
    match (random.below(4), places.address) {
        (0, Some(_)) => changed.address = None,
        (1, Some(address)) => changed.address = Some(changed_address(random, address)),
        (0 | 1, None) => changed.address = Some(any_address(random, cells)),
        _ => {
            let register = any_register(random);
            let is_one = places.registers.get(register);
            changed.registers.set(register, !is_one);
        }
    }
    changed
}

fn changed_shadows(random: &mut Random, shadows: BankShadows, cells: &[Cell]) -> BankShadows {
    if random.below(3) == 0 {
        BankShadows {
            second: changed_places(random, shadows.second, cells),
            ..shadows
        }
    } else {
        BankShadows {
            first: changed_places(random, shadows.first, cells),
            ..shadows
        }
    }
}

/// Changes what a state says of the whole program.
fn change_summary(random: &mut Random, state: &mut Abs, facts: usize) {
    let old = state.summary().copied();
    let (mut level, mut shadows) = (old.level(), old.shadows());
    let mut fills = ArrayVec::new();
    let _ = fills.try_extend_from_slice(old.fills());
    match random.below(6) {
        0 | 1 if facts > 0 => level = changed_level(random, level, facts),
        2 | 3 if !old.fills().is_empty() => fills = changed_fills(random, old.fills()),
        4 => fills = changed_fills(random, old.fills()),
        _ => shadows = changed_shadows(random, shadows, state.cells()),
    }
    state.set_summary(Summary::of_parts(level, fills, shadows, old.aside()));
}

/// Changes a cell or takes it out.
fn change_cells(random: &mut Random, state: &mut Abs) {
    let mut cells: ArrayVec<Cell, 64> = ArrayVec::new();
    let count = state.cells().len();
    let number = random.below(count.saturating_add(1).max(1));
    let is_left_out = random.below(2) == 0;
    for (place, cell) in state.cells().iter().enumerate() {
        if place != number {
            let _ = cells.try_push(*cell);
        } else if !is_left_out {
            let val = match random.below(3) {
                0 => Val {
                    origin: any_origin(random),
                    ..cell.val
                },
                _ => changed_val(random, cell.val),
            };
            let _ = cells.try_push(Cell { val, ..*cell });
        }
    }
    state.set_cells(cells);
}

/// Changes a register's bounds, low bits or origin.
fn change_register(random: &mut Random, state: &mut Abs) {
    let mut core = *state.core();
    let register = any_register(random);
    let val = core.registers.get(register);
    let changed = match random.below(3) {
        0 => Val {
            origin: any_origin(random),
            ..val
        },
        1 => Val {
            lo: 0,
            hi: 0xFF,
            low_bits: 0,
            origin: None,
        },
        _ => changed_val(random, val),
    };
    core.registers.set(register, changed);
    state.set_core(core);
}

/// Changes which of the controller's registers are kept, or the bank's bounds.
fn change_controller(random: &mut Random, state: &mut Abs) {
    let mut core = *state.core();
    match random.below(7) {
        0 => core.ctl.kept.bank = !core.ctl.kept.bank,
        1 => core.ctl.kept.high_bank = !core.ctl.kept.high_bank,
        2 => core.ctl.kept.second = !core.ctl.kept.second,
        3 => core.ctl.kept.gate = !core.ctl.kept.gate,
        4 => core.ctl.bank_lo = 0,
        5 => core.ctl.bank_hi = core.ctl.bank_hi.wrapping_add(1),
        _ => core.ctl.bank_hi = core.ctl.bank_lo,
    }
    state.set_core(core);
}

fn change_state(random: &mut Random, state: &mut Abs, facts: usize) {
    match random.below(8) {
        0 => change_cells(random, state),
        1 => change_register(random, state),
        2 => change_controller(random, state),
        _ => change_summary(random, state, facts),
    }
}

/// Changes the state of a node, or of an exit.
fn change_some_state(random: &mut Random, parts: &mut CertificateParts) {
    let facts = parts.facts.len();
    let number = random.below(parts.nodes.len().max(1));
    let is_exit = random.below(6) == 0;
    let procedure = random.below(parts.procedures.len().max(1));
    if is_exit
        && let Some(one) = parts.procedures.get_mut(procedure)
        && let Some(exit) = &mut one.exit
    {
        change_state(random, exit, facts);
    } else if let Some(node) = parts.nodes.get_mut(number) {
        change_state(random, &mut node.state, facts);
    }
}

/// A certificate with so many aimed changes; as it was where it can't be read or written.
pub fn edited(
    alloc: Global,
    random: &mut Random,
    cert: &[u8],
    count: usize,
) -> io::Result<Vec<u8>> {
    let Ok(read) = Cert::parse(alloc, cert) else {
        return Ok(Vec::from_slice(alloc, cert)?);
    };
    let mut parts = CertificateParts::of(alloc, &read)?;
    for _ in 0..count {
        match random.below(8) {
            0 | 1 => change_facts(random, &mut parts.facts),
            2 => {
                let number = random.below(parts.procedures.len().max(1));
                if let Some(procedure) = parts.procedures.get_mut(number) {
                    change_procedure(random, procedure);
                }
            }
            _ => change_some_state(random, &mut parts),
        }
    }
    match parts.written(alloc) {
        Ok(bytes) => Ok(bytes),
        Err(_) => Ok(Vec::from_slice(alloc, cert)?),
    }
}
