//! The least state above two others.

use crate::basis::Basis;
use crate::configuration::Edition;
use crate::relating::{KnownRelations, join_relations};
use crate::shadowing::join_summaries;
use arrayvec::ArrayVec;
use gb_verify::gb_domain::interval::{StridedInterval, join as join_intervals};
use gb_verify::gb_domain::values::interval_of;
use gb_verify::gb_ops::machine::Kind;
use gb_verify::gb_ops::registers::Registers;
use gb_verify::{
    Abs, Cell, Core, Ctl, Flg, ImeSet, KeptBanks, May, Origin, Program, Relations, Rules, Test,
    Val, any, test_alone,
};

/// The origin of both, if it is one.
fn join_origin(a: Option<Origin>, b: Option<Origin>) -> Option<Origin> {
    match (a, b) {
        (Some(first), Some(second)) if first == second => Some(first),
        _ => None,
    }
}

/// The bytes of an interval, and what they are a copy of.
pub fn val_of(interval: StridedInterval, origin: Option<Origin>) -> Val {
    Val {
        lo: interval.lo,
        hi: interval.hi,
        low_bits: interval.count,
        origin,
    }
}

/// The least interval around both: by the rules of version 4 with the low bits that both have.
pub fn join_val(edition: Edition, a: Val, b: Val) -> Val {
    let origin = join_origin(a.origin, b.origin);
    if edition.is_fourth() {
        return val_of(join_intervals(interval_of(a), interval_of(b)), origin);
    }
    Val {
        lo: a.lo.min(b.lo),
        hi: a.hi.max(b.hi),
        low_bits: 0,
        origin,
    }
}

fn join_may(a: May, b: May) -> May {
    May {
        clear: a.clear || b.clear,
        set: a.set || b.set,
    }
}

fn join_ime(a: ImeSet, b: ImeSet) -> ImeSet {
    ImeSet {
        off: a.off || b.off,
        pending: a.pending || b.pending,
        on: a.on || b.on,
    }
}

fn join_flags(a: &Flg, b: &Flg) -> Flg {
    Flg {
        zero: join_may(a.zero, b.zero),
        subtract: join_may(a.subtract, b.subtract),
        half_carry: join_may(a.half_carry, b.half_carry),
        carry: join_may(a.carry, b.carry),
        is_own: a.is_own && b.is_own,
    }
}

/// What both keep.
fn join_kept(a: KeptBanks, b: KeptBanks) -> KeptBanks {
    KeptBanks {
        bank: a.bank && b.bank,
        second: a.second && b.second,
        gate: a.gate && b.gate,
        mode: a.mode && b.mode,
        high_bank: a.high_bank && b.high_bank,
    }
}

/// The greatest bank of which each half is below both.
fn lower_halves(a: u16, b: u16) -> u16 {
    let [high, low] = a.to_be_bytes();
    let [other_high, other_low] = b.to_be_bytes();
    u16::from_be_bytes([high.min(other_high), low.min(other_low)])
}

/// The least bank of which each half is above both.
fn upper_halves(a: u16, b: u16) -> u16 {
    let [high, low] = a.to_be_bytes();
    let [other_high, other_low] = b.to_be_bytes();
    u16::from_be_bytes([high.max(other_high), low.max(other_low)])
}

/// The least bounds around both banks: of MBC5's, by the rules of version 4, each half has its own.
fn join_banks(basis: &Basis<'_>, a: &Ctl, b: &Ctl) -> (u16, u16) {
    if matches!(basis.program.kind, Kind::Mbc5) {
        (
            lower_halves(a.bank_lo, b.bank_lo),
            upper_halves(a.bank_hi, b.bank_hi),
        )
    } else {
        (a.bank_lo.min(b.bank_lo), a.bank_hi.max(b.bank_hi))
    }
}

fn join_controller(basis: &Basis<'_>, a: &Ctl, b: &Ctl) -> Ctl {
    let (bank_lo, bank_hi) = join_banks(basis, a, b);
    Ctl {
        bank_lo,
        bank_hi,
        second_lo: a.second_lo.min(b.second_lo),
        second_hi: a.second_hi.max(b.second_hi),
        gate: join_may(a.gate, b.gate),
        mode: join_may(a.mode, b.mode),
        kept: join_kept(a.kept, b.kept),
    }
}

fn join_registers(edition: Edition, a: &Registers<Val>, b: &Registers<Val>) -> Registers<Val> {
    Registers {
        a: join_val(edition, a.a, b.a),
        b: join_val(edition, a.b, b.b),
        c: join_val(edition, a.c, b.c),
        d: join_val(edition, a.d, b.d),
        e: join_val(edition, a.e, b.e),
        h: join_val(edition, a.h, b.h),
        l: join_val(edition, a.l, b.l),
    }
}

/// The least core above both.
pub fn join_core(basis: &Basis<'_>, a: &Core, b: &Core) -> Core {
    let edition = basis.edition;
    Core {
        ime: join_ime(a.ime, b.ime),
        bound: a.bound.max(b.bound),
        stack_set: a.stack_set && b.stack_set,
        ctl: join_controller(basis, &a.ctl, &b.ctl),
        flags: join_flags(&a.flags, &b.flags),
        ie: join_val(edition, a.ie, b.ie),
        registers: join_registers(edition, &a.registers, &b.registers),
    }
}

/// What the flags' test compares A with, which by the rules of versions 1 and 2 is all that is known of several parts together.
fn compared(relations: &Relations) -> Option<u8> {
    match relations.byte.test {
        Some(Test::Compare(value)) => Some(value),
        _ => None,
    }
}

/// The test of both, if it is one.
fn join_tests(a: &Relations, b: &Relations) -> Relations {
    let test = compared(a);
    test_alone(if test == compared(b) { test } else { None })
}

/// A state in a program.
pub fn known_of<'a>(program: &'a Program<'a>, state: &'a Abs) -> KnownRelations<'a> {
    KnownRelations {
        program,
        state,
        registers: &state.core().registers,
        relations: state.relations(),
    }
}

/// What is known of several parts together in both.
pub fn join_all_relations(basis: &Basis<'_>, a: &Abs, b: &Abs) -> Relations {
    let program = &basis.program;
    match basis.rules() {
        Rules::Simple => join_tests(a.relations(), b.relations()),
        Rules::Extended => {
            join_relations(basis.edition, known_of(program, a), known_of(program, b))
        }
    }
}

/// The bytes of both, as far as both have them.
pub fn join_items(edition: Edition, a: &[Val], b: &[Val]) -> ArrayVec<Val, 255> {
    let mut items = ArrayVec::new();
    for (first, second) in a.iter().zip(b) {
        let _ = items.try_push(join_val(edition, *first, *second));
    }
    items
}

/// The cells of both that say something together. Both are in order of address.
pub fn join_cells(edition: Edition, a: &[Cell], b: &[Cell]) -> ArrayVec<Cell, 64> {
    let mut cells = ArrayVec::new();
    let mut rest = b;
    for first in a {
        while let [second, others @ ..] = rest {
            if second.address >= first.address {
                break;
            }
            rest = others;
        }
        if let [second, ..] = rest
            && second.address == first.address
        {
            let val = join_val(edition, first.val, second.val);
            if val != any() {
                let _ = cells.try_push(Cell {
                    address: first.address,
                    val,
                });
            }
        }
    }
    cells
}

/// The least state above both, where both have equally many bytes on the stack.
pub fn join(basis: &Basis<'_>, a: &Abs, b: &Abs) -> Abs {
    Abs::of_all_parts(
        join_core(basis, a.core(), b.core()),
        join_items(basis.edition, a.items(), b.items()),
        join_cells(basis.edition, a.cells(), b.cells()),
        join_all_relations(basis, a, b),
        join_summaries(basis, a, b),
    )
}
