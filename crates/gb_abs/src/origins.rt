//! Values that are copies of what stood somewhere at entry, and values that are no copies.

ghost use Rattle.std.specs.Prelude.{◌≡◌, ◌≤◌, length, map};
ghost use Rattle.gb_abs.specs.Origins as Origins;

use crate::covering::covers_origin;
use arrayvec::ArrayVec;
use gb_domain::types::{Cell, Core, Ctl, Flg, KeptBanks, Origin, Val};
use gb_ops::registers::Registers;

/// The value, a copy of what this held at entry.
pub fn own(origin: Origin, val: Val) -> Val
    ensures { result ≡ Origins.own origin val }
{
    Val {
        origin: Some(origin),
        ..val
    }
}

/// The value, no copy of another.
pub fn without_origin(val: Val) -> Val
    ensures { result ≡ Origins.without_origin val }
{
    Val {
        origin: None,
        ..val
    }
}

/// Whether a value is what this held at entry.
pub fn is_own(origin: Origin, val: Val) -> bool
    ensures { result ≡ Origins.is_own origin val }
{
    covers_origin(val.origin, Some(origin))
}

/// The cell, its value no copy of another.
pub fn cell_without_origin(cell: Cell) -> Cell
    ensures { result ≡ Origins.cell_without_origin cell }
{
    Cell {
        val: without_origin(cell.val),
        ..cell
    }
}

/// The cells, no copies. There must be room.
pub fn cells_without_origins(cells: &[Cell]) -> ArrayVec<Cell, 64>
    requires { length cells.now ≤ 64 }
    ensures { result.items ≡ map Origins.cell_without_origin cells.now }
{
    let mut plain = ArrayVec::new();
    for cell in cells {
        plain.push(cell_without_origin(*cell));
    }
    plain
}

fn registers_without_origins(registers: &Registers<Val>) -> Registers<Val>
    ensures { result ≡ Origins.registers_without_origins registers.now }
{
    Registers {
        a: without_origin(registers.a),
        b: without_origin(registers.b),
        c: without_origin(registers.c),
        d: without_origin(registers.d),
        e: without_origin(registers.e),
        h: without_origin(registers.h),
        l: without_origin(registers.l),
    }
}

/// Nothing is a copy of what stood anywhere at entry: neither a register nor the flags nor IE, and the controller isn't
/// kept.
#[tactic(auto, unfolding(crate::specs::Origins::core_without_origins))]
pub fn core_without_origins(core: &Core) -> Core
    ensures { result ≡ Origins.core_without_origins core.now }
{
    Core {
        registers: registers_without_origins(&core.registers),
        flags: Flg {
            is_own: false,
            ..core.flags
        },
        ie: without_origin(core.ie),
        ctl: Ctl {
            kept: KeptBanks::all_or_none(false),
            ..core.ctl
        },
        ..*core
    }
}
