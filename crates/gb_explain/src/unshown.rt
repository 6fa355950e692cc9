//! Finds what a state doesn't show of what another one claims for the whole program: bytes of facts, bytes of fills, and places that
//! hold the mapped bank. What isn't shown refutes the other one's claim, the cells that it keeps apart.

use crate::difference::{KnownPart, StateDifference, StatePart, bank_part};
use crate::together::REGISTERS;
use arrayvec::ArrayVec;
use gb_verify::gb_domain::places::NO_REGISTER;
use gb_verify::gb_domain::values::interval_of;
use gb_verify::gb_domain::{BankShadows, Fact, Fill, Shadows, StridedInterval, Summary, Val};
use gb_verify::gb_ram_bounds::cells::has_cell;
use gb_verify::gb_ram_bounds::facts::has_address;
use gb_verify::{Abs, Program, States, byte_of, covers_said, covers_val};

/// What isn't shown: the first of it, and what else there is.
#[derive(Clone, Copy)]
pub(crate) struct Unshown {
    pub(crate) first: StateDifference,
    pub(crate) others: [Option<StateDifference>; 2],
}

/// A byte of RAM, by its address, and what is known of it.
#[derive(Clone, Copy)]
struct KnownByte {
    address: u16,
    val: Val,
}

/// These bytes, no copies.
pub(crate) fn any_of(bytes: StridedInterval) -> Val {
    Val {
        lo: bytes.lo,
        hi: bytes.hi,
        low_bits: bytes.count,
        origin: None,
    }
}

/// A cell at one of a fact's addresses that isn't kept and has other values than the fact.
fn unkept_cell(states: &States<'_>, claimed: &Abs, fact: &Fact) -> Option<KnownByte> {
    let wanted = any_of(fact.value);
    for cell in states.lists.cells() {
        let is_asked = has_address(fact, cell.address) && !has_cell(claimed.cells(), cell.address);
        if is_asked && !covers_val(&cell.val, &wanted) {
            return Some(KnownByte {
                address: cell.address,
                val: cell.val,
            });
        }
    }
    None
}

/// A byte at one of a fact's addresses without a cell that may have other values than the fact.
fn ungiven_byte(
    program: &Program<'_>,
    states: &States<'_>,
    claimed: &Abs,
    fact: &Fact,
) -> Option<KnownByte> {
    let wanted = any_of(fact.value);
    for address in fact.first..=fact.last {
        if has_address(fact, address) && !has_cell(claimed.cells(), address) {
            let val = byte_of(program, states, address);
            if !covers_val(&val, &wanted) {
                return Some(KnownByte { address, val });
            }
        }
    }
    None
}

/// The first byte of a fact that isn't shown.
fn unshown_fact(
    program: &Program<'_>,
    states: &States<'_>,
    claimed: &Abs,
) -> Option<StateDifference> {
    let held = states.summary.level();
    for number in 0..claimed.summary().level() {
        let fact = program.facts.get(usize::from(number))?;
        let found = if number < held {
            unkept_cell(states, claimed, fact)
        } else {
            ungiven_byte(program, states, claimed, fact)
        };
        if let Some(KnownByte { address, val }) = found {
            return Some(StateDifference {
                part: StatePart::InFact(number, address),
                left: KnownPart::Bytes(interval_of(val)),
                claimed: KnownPart::Bytes(fact.value),
            });
        }
    }
    None
}

/// Whether a fill is shown, if nothing else is claimed.
fn is_fill_shown(program: &Program<'_>, states: &States<'_>, claimed: &Abs, fill: Fill) -> bool {
    let mut fills = ArrayVec::new();
    if fills.try_push(fill).is_err() {
        return false;
    }
    let aside = states.summary.aside();
    let summary = Summary::of_parts(0, fills, BankShadows::default(), aside);
    covers_said(program, states, claimed.cells(), &summary)
}

/// The first byte of a fill that isn't shown.
fn unshown_in_fill(
    program: &Program<'_>,
    states: &States<'_>,
    claimed: &Abs,
    fill: Fill,
) -> Option<StateDifference> {
    for address in fill.first..=fill.last {
        let alone = Fill {
            first: address,
            last: address,
            ..fill
        };
        if !is_fill_shown(program, states, claimed, alone) {
            let known = interval_of(byte_of(program, states, address));
            return Some(StateDifference {
                part: StatePart::InFill(fill, address),
                left: KnownPart::Bytes(known),
                claimed: KnownPart::Bytes(StridedInterval {
                    lo: fill.lo,
                    hi: fill.hi,
                    count: 0,
                }),
            });
        }
    }
    None
}

/// The first byte of a fill that isn't shown, of all fills.
fn unshown_fill(
    program: &Program<'_>,
    states: &States<'_>,
    claimed: &Abs,
) -> Option<StateDifference> {
    for fill in claimed.summary().fills() {
        if !is_fill_shown(program, states, claimed, *fill) {
            return unshown_in_fill(program, states, claimed, *fill);
        }
    }
    None
}

/// Whether places of one of the controller's windows are shown, if nothing else is claimed.
fn are_places_shown(
    program: &Program<'_>,
    states: &States<'_>,
    claimed: &Abs,
    is_second: bool,
    places: Shadows,
) -> bool {
    let none = BankShadows::default();
    let shadows = if is_second {
        BankShadows {
            second: places,
            ..none
        }
    } else {
        BankShadows {
            first: places,
            ..none
        }
    };
    let aside = states.summary.aside();
    let summary = Summary::of_parts(0, ArrayVec::new(), shadows, aside);
    covers_said(program, states, claimed.cells(), &summary)
}

/// The first of some places of a window that isn't shown.
fn unshown_place(
    program: &Program<'_>,
    states: &States<'_>,
    claimed: &Abs,
    is_second: bool,
    places: Shadows,
) -> Option<StatePart> {
    for register in REGISTERS {
        if places.registers.get(register) {
            let mut registers = NO_REGISTER;
            registers.set(register, true);
            let address = None;
            let place = Shadows { registers, address };
            if !are_places_shown(program, states, claimed, is_second, place) {
                return Some(StatePart::Register(register));
            }
        }
    }
    let address = places.address?;
    let place = Shadows {
        registers: NO_REGISTER,
        ..places
    };
    if are_places_shown(program, states, claimed, is_second, place) {
        return None;
    }
    Some(StatePart::Cell(address))
}

/// The first place that isn't shown, of both windows.
fn unshown_bank(
    program: &Program<'_>,
    states: &States<'_>,
    claimed: &Abs,
) -> Option<StateDifference> {
    let shadows = claimed.summary().shadows();
    for is_second in [false, true] {
        let places = if is_second {
            shadows.second
        } else {
            shadows.first
        };
        if let Some(part) = unshown_place(program, states, claimed, is_second, places) {
            let bank = bank_part(program.kind, is_second);
            return Some(StateDifference {
                part,
                left: KnownPart::NotBank(bank),
                claimed: KnownPart::Bank(bank),
            });
        }
    }
    None
}

/// What isn't shown of what another state claims for the whole program, where something isn't.
pub(crate) fn unshown_of(program: &Program<'_>, states: &States<'_>, claimed: &Abs) -> Unshown {
    let facts = unshown_fact(program, states, claimed);
    let fills = unshown_fill(program, states, claimed);
    let banks = unshown_bank(program, states, claimed);
    let aside = StateDifference {
        part: StatePart::Stack,
        left: KnownPart::Aside(states.summary.aside()),
        claimed: KnownPart::Aside(claimed.summary().aside()),
    };
    let (first, others) = match (facts, fills, banks) {
        (Some(fact), _, _) => (fact, [fills, banks]),
        (None, Some(fill), _) => (fill, [banks, None]),
        (None, None, Some(bank)) => (bank, [None, None]),
        (None, None, None) => (aside, [None, None]),
    };
    Unshown { first, others }
}
