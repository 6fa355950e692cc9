//! What callers see of the state that a procedure returns in, and what it is said to return with.

use crate::bounds::{WORD_PAIRS, facts_of, halves_of, set_facts};
use crate::register_set::REGISTERS;
use arrayvec::ArrayVec;
use gb_verify::gb_ops::registers::Registers;
use gb_verify::{
    Abs, Cell, Core, Ctl, Flg, KeptBanks, May, NOTHING_KNOWN, OneByte, Origin, Pairs, Range,
    Relations, Val, any,
};

/// Any value of a bit.
const EITHER: May = May {
    clear: true,
    set: true,
};

/// All of the controller's registers are as they were.
const ALL_KEPT: KeptBanks = KeptBanks {
    bank: true,
    second: true,
    gate: true,
    mode: true,
    high_bank: true,
};

/// What stands for a controller that is as it was.
const KEPT: Ctl = Ctl {
    bank_lo: 0,
    bank_hi: 511,
    second_lo: 0,
    second_hi: 255,
    gate: EITHER,
    mode: EITHER,
    kept: ALL_KEPT,
};

/// A value; any, where it is what this held at entry, since the caller's own value comes back then.
fn seen_val(origin: Origin, val: Val) -> Val {
    if val.origin == Some(origin) {
        Val {
            lo: 0,
            hi: 255,
            low_bits: 0,
            origin: val.origin,
        }
    } else {
        Val {
            origin: None,
            ..val
        }
    }
}

fn seen_flags(flags: Flg) -> Flg {
    if flags.is_own {
        Flg {
            zero: EITHER,
            subtract: EITHER,
            half_carry: EITHER,
            carry: EITHER,
            is_own: true,
        }
    } else {
        flags
    }
}

fn seen_registers(registers: &Registers<Val>) -> Registers<Val> {
    Registers {
        a: seen_val(Origin::A, registers.a),
        b: seen_val(Origin::B, registers.b),
        c: seen_val(Origin::C, registers.c),
        d: seen_val(Origin::D, registers.d),
        e: seen_val(Origin::E, registers.e),
        h: seen_val(Origin::H, registers.h),
        l: seen_val(Origin::L, registers.l),
    }
}

/// The cells in the ranges: the caller's own come back elsewhere.
fn seen_cells(ranges: &[Range], cells: &[Cell]) -> ArrayVec<Cell, 64> {
    let mut seen = ArrayVec::new();
    for cell in cells {
        let is_seen = ranges.iter().any(|range| range.first <= cell.address
            && cell.address <= range.last);
        if is_seen {
            let _ = seen.try_push(Cell {
                address: cell.address,
                val: Val {
                    origin: None,
                    ..cell.val
                },
            });
        }
    }
    seen
}

/// The bytes that are left on the stack: they are no copies to the caller.
fn seen_items(items: &[Val]) -> ArrayVec<Val, 255> {
    let mut seen = ArrayVec::new();
    for item in items {
        let _ = seen.try_push(Val {
            origin: None,
            ..*item
        });
    }
    seen
}

/// What is said of pairs that aren't as they were at entry: the caller's own come back else.
fn seen_pairs(exit: &Abs) -> Pairs {
    let registers = &exit.core().registers;
    let mut pairs = exit.relations().pairs;
    for pair in WORD_PAIRS {
        let (high, low) = halves_of(pair);
        let is_kept = registers.get(high).origin == Some(Origin::of(high))
            && registers.get(low).origin == Some(Origin::of(low));
        if is_kept && facts_of(pair, &pairs).link.is_none() {
            set_facts(pair, NOTHING_KNOWN, &mut pairs);
        }
    }
    pairs
}

/// What is known together: of the one byte the caller's own is meant where the flags are as they were.
fn seen_relations(exit: &Abs) -> Relations {
    let relations = *exit.relations();
    Relations {
        byte: if exit.core().flags.is_own {
            OneByte::default()
        } else {
            relations.byte
        },
        zero: relations.zero,
        pairs: seen_pairs(exit),
    }
}

/// What the callers of a procedure with these ranges see of its exit. Where it is the same, they go on with the same.
pub fn seen(ranges: &[Range], exit: &Abs) -> Abs {
    let core = exit.core();
    let seen = Core {
        ctl: if core.ctl.kept.are_all() {
            KEPT
        } else {
            core.ctl
        },
        flags: seen_flags(core.flags),
        ie: seen_val(Origin::Ie, core.ie),
        registers: seen_registers(&core.registers),
        ..*core
    };
    Abs::of_parts(
        seen,
        seen_items(exit.items()),
        seen_cells(ranges, exit.cells()),
        seen_relations(exit),
    )
}

/// A value; with any bounds, where it is a copy of this: what its caller knows of that comes back then.
fn given_back_val(origin: Origin, val: Val) -> Val {
    if val.origin == Some(origin) {
        Val {
            origin: Some(origin),
            ..any()
        }
    } else {
        val
    }
}

fn given_back_registers(registers: &Registers<Val>) -> Registers<Val> {
    let mut left = *registers;
    for register in REGISTERS {
        let val = registers.get(register);
        left.set(register, given_back_val(Origin::of(register), val));
    }
    left
}

/// The origin of the byte that is kept at an address, by all that are.
pub fn kept_origin(kept: &[u16], address: u16) -> Option<Origin> {
    match kept.binary_search(&address) {
        Ok(number) => Some(Origin::Kept(u8::try_from(number).unwrap_or(0))),
        Err(_) => None,
    }
}

fn given_back_cells(kept: &[u16], cells: &[Cell]) -> ArrayVec<Cell, 64> {
    let mut left = ArrayVec::new();
    for cell in cells {
        let val = match kept_origin(kept, cell.address) {
            Some(origin) => given_back_val(origin, cell.val),
            None => cell.val,
        };
        let _ = left.try_push(Cell {
            address: cell.address,
            val,
        });
    }
    left
}

/// What a procedure is said to return with, by the rules of version 4, where so many addresses are kept: of what it gives back its
/// callers know more than it does.
pub fn told_exit(kept: &[u16], exit: &Abs) -> Abs {
    let core = exit.core();
    let mut told = exit.with_core(Core {
        ie: given_back_val(Origin::Ie, core.ie),
        registers: given_back_registers(&core.registers),
        ..*core
    });
    told.set_cells(given_back_cells(kept, exit.cells()));
    told
}

/// The controller, of which nothing is said that the callers' own stands for.
fn seen_controller(ctl: &Ctl) -> Ctl {
    let mut seen = *ctl;
    if ctl.kept.bank && ctl.kept.high_bank {
        seen.bank_lo = KEPT.bank_lo;
        seen.bank_hi = KEPT.bank_hi;
    }
    if ctl.kept.second {
        seen.second_lo = KEPT.second_lo;
        seen.second_hi = KEPT.second_hi;
    }
    if ctl.kept.gate {
        seen.gate = EITHER;
    }
    if ctl.kept.mode {
        seen.mode = EITHER;
    }
    seen
}

/// The cells in the ranges, with what they are copies of.
fn given_cells(ranges: &[Range], cells: &[Cell]) -> ArrayVec<Cell, 64> {
    let mut given = ArrayVec::new();
    for cell in cells {
        let is_given = ranges.iter().any(|range| range.first <= cell.address
            && cell.address <= range.last);
        if is_given {
            let _ = given.try_push(*cell);
        }
    }
    given
}

/// What the callers of a procedure with these ranges see of an exit that it is said to return with, by the rules of version 4: each
/// value that is a copy is cut to what they know of what it is a copy of.
pub fn seen_as_told(ranges: &[Range], exit: &Abs) -> Abs {
    let core = exit.core();
    let mut seen = exit.with_core(Core {
        ctl: seen_controller(&core.ctl),
        flags: seen_flags(core.flags),
        ..*core
    });
    seen.set_cells(given_cells(ranges, exit.cells()));
    seen.set_relations(seen_relations(exit));
    seen
}
