//! What a handler begins with, and whether a state is known behind one: most interrupts tell nothing new, which is seen by comparing.

use crate::bounds::{WORD_PAIRS, facts_of};
use crate::register_set::REGISTERS;
use crate::seen::kept_origin;
use gb_verify::gb_ops::machine::Kind;
use gb_verify::gb_ops::registers::Registers;
use gb_verify::{
    Abs, Cell, Core, Ctl, Flg, ImeSet, KeptBanks, Origin, Other, Pairs, Range, Shadows, Summary,
    Val, cell_at, covers_controller, covers_ime, covers_val,
};

/// Each register is a copy of what it holds.
fn own_registers(registers: &Registers<Val>) -> Registers<Val> {
    let mut own = *registers;
    for register in REGISTERS {
        let origin = Some(Origin::of(register));
        let val = registers.get(register);
        own.set(register, Val { origin, ..val });
    }
    own
}

/// What a handler begins with that comes in this core, where no transfer may run.
pub fn entered_core(core: &Core) -> Core {
    Core {
        ime: ImeSet {
            off: true,
            pending: false,
            on: false,
        },
        ctl: Ctl {
            kept: KeptBanks::all_or_none(true),
            ..core.ctl
        },
        flags: Flg {
            is_own: true,
            ..core.flags
        },
        ie: Val {
            origin: Some(Origin::Ie),
            ..core.ie
        },
        registers: own_registers(&core.registers),
        ..*core
    }
}

/// The bytes of a return word, as a handler takes them over.
pub fn return_word(address: u16) -> [Val; 2] {
    let [high, low] = address.to_be_bytes();
    [
        Val {
            lo: high,
            hi: high,
            low_bits: 0,
            origin: Some(Origin::ReturnHigh),
        },
        Val {
            lo: low,
            hi: low,
            low_bits: 0,
            origin: Some(Origin::ReturnLow),
        },
    ]
}

/// Whether registers, flags and IE are given back as they were.
pub fn gives_back_all(exit: &Core) -> bool {
    let are_own = REGISTERS.iter().all(|register| {
        exit.registers.get(*register).origin == Some(Origin::of(*register))
    });
    are_own && exit.flags.is_own && exit.ie.origin == Some(Origin::Ie)
}

/// Whether a core holds what is left of it by a handler that gives registers, flags and IE back.
pub fn holds_core(kind: Kind, core: &Core, exit: &Core) -> bool {
    (exit.ctl.kept.are_all() || covers_controller(kind, &exit.ctl, &core.ctl))
        && covers_ime(&exit.ime, &core.ime)
        && exit.bound <= core.bound
}

pub fn has_links(pairs: &Pairs) -> bool {
    WORD_PAIRS
        .iter()
        .any(|pair| facts_of(*pair, pairs).link.is_some())
}

/// Whether a handler with these ranges writes none of the bytes that links read in memory.
pub fn are_reads_kept(ranges: &[Range], pairs: &Pairs) -> bool {
    WORD_PAIRS.iter().all(|pair| match facts_of(*pair, pairs).link {
        Some(link) => match link.other {
            Other::Cell(address) => !is_in(ranges, address),
            Other::Register(_) | Other::Pair(_) | Other::Nothing => true,
        },
        None => true,
    })
}

pub fn is_in(ranges: &[Range], address: u16) -> bool {
    ranges
        .iter()
        .any(|range| range.first <= address && address <= range.last)
}

/// Whether what is known of the cells that a handler may write is known behind it.
pub fn holds_cells(kept: &[u16], ranges: &[Range], cells: &[Cell], exit: &[Cell]) -> bool {
    cells.iter().all(|cell| {
        !is_in(ranges, cell.address) || holds_cell(kept, cell, cell_at(cell.address, exit))
    })
}

/// Whether what is known of a cell is known where a handler leaves this of it: also where that is what it was.
fn holds_cell(kept: &[u16], cell: &Cell, left: Val) -> bool {
    let own = kept_origin(kept, cell.address);
    if own.is_some() && left.origin == own {
        return true;
    }
    let left = Val {
        origin: None,
        ..left
    };
    covers_val(&left, &cell.val)
}

/// Whether the places that shadow a register of the controller do so behind a handler that gives back all registers, and whether it
/// keeps that one.
fn holds_shadows(ranges: &[Range], shadows: &Shadows, exit: &Shadows, is_kept: bool) -> bool {
    let is_address_held = match (shadows.address, exit.address) {
        (None, _) => true,
        (Some(address), Some(left)) => address == left,
        (Some(address), None) => is_kept && !is_in(ranges, address),
    };
    let has_register = REGISTERS
        .iter()
        .any(|register| shadows.registers.get(*register));
    is_address_held && (is_kept || !has_register)
}

/// Whether what a state says of the whole program is known behind a handler with these ranges and this exit. Where facts or fills hold,
/// that isn't seen at once.
pub fn holds_summary(ranges: &[Range], summary: &Summary, exit: &Abs) -> bool {
    if summary.is_silent() {
        return true;
    }
    let (shadows, left) = (summary.shadows(), exit.summary().shadows());
    let kept = exit.core().ctl.kept;
    summary.level() == 0
        && summary.fills().is_empty()
        && holds_shadows(
            ranges,
            &shadows.first,
            &left.first,
            kept.bank && kept.high_bank,
        )
        && holds_shadows(ranges, &shadows.second, &left.second, kept.second)
}
