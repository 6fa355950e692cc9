//! A state as a person reads it: registers, flags, banks, the stack and cells.

use gb_facts::step_text;
use gb_findings::gb_fixpoint::{Abs, Cell, Core, Ctl, Flg, ImeSet, May, Val};
use std::fmt;

/// A value, or an interval of values.
#[derive(Clone, Copy)]
struct ShownVal(Val);

impl fmt::Display for ShownVal {
    fn fmt<W: fmt::Write>(&self, f: &mut fmt::Formatter<W>) -> fmt::Result {
        let lo = self.0.lo;
        let hi = self.0.hi;
        if lo == hi {
            write!(f, "{lo:02X}")
        } else if lo == 0 && hi == 255 {
            write!(f, "any")
        } else {
            let step = step_text(self.0.low_bits);
            write!(f, "{lo:02X}..{hi:02X}{step}")
        }
    }
}

/// What a flag may be.
fn flag_text(may: May) -> &'static str {
    match (may.clear, may.set) {
        (true, false) => "0",
        (false, true) => "1",
        _ => "?",
    }
}

/// The flags.
#[derive(Clone, Copy)]
pub struct ShownFlags(pub Flg);

impl fmt::Display for ShownFlags {
    fn fmt<W: fmt::Write>(&self, f: &mut fmt::Formatter<W>) -> fmt::Result {
        let zero = flag_text(self.0.zero);
        let carry = flag_text(self.0.carry);
        write!(f, "Z={zero} C={carry}")
    }
}

/// What the interrupt master enable may be.
pub fn ime_text(ime: ImeSet) -> &'static str {
    match (ime.off, ime.pending, ime.on) {
        (true, false, false) => "interrupts off",
        (false, true, false) => "interrupts on after the next instruction",
        (false, false, true) => "interrupts on",
        _ => "interrupts on or off",
    }
}

/// What the gate of cartridge RAM may be.
pub fn gate_text(gate: May) -> &'static str {
    match (gate.clear, gate.set) {
        (true, false) => "disabled",
        (false, true) => "enabled",
        _ => "enabled or disabled",
    }
}

/// What the controller's registers may be.
#[derive(Clone, Copy)]
struct ShownController(Ctl);

/// The banks that may be shown.
fn fmt_banks<W: fmt::Write>(ctl: Ctl, f: &mut fmt::Formatter<W>) -> fmt::Result {
    let lo = ctl.bank_lo;
    let hi = ctl.bank_hi;
    if lo == hi {
        write!(f, "bank {lo:02X}")
    } else {
        write!(f, "bank {lo:02X}..{hi:02X}")
    }
}

impl fmt::Display for ShownController {
    fn fmt<W: fmt::Write>(&self, f: &mut fmt::Formatter<W>) -> fmt::Result {
        let gate = gate_text(self.0.gate);
        fmt_banks(self.0, f)?;
        write!(f, ", cartridge RAM {gate}")
    }
}

/// The registers.
#[derive(Clone, Copy)]
pub struct ShownRegisters<'a>(pub &'a Abs);

impl fmt::Display for ShownRegisters<'_> {
    fn fmt<W: fmt::Write>(&self, f: &mut fmt::Formatter<W>) -> fmt::Result {
        let registers = self.0.core().registers;
        let a = ShownVal(registers.a);
        let b = ShownVal(registers.b);
        let c = ShownVal(registers.c);
        let d = ShownVal(registers.d);
        let e = ShownVal(registers.e);
        let h = ShownVal(registers.h);
        let l = ShownVal(registers.l);
        write!(f, "A={a} B={b} C={c} D={d} E={e} H={h} L={l}")
    }
}

/// A cell.
#[derive(Clone, Copy)]
pub struct ShownCell(pub Cell);

impl fmt::Display for ShownCell {
    fn fmt<W: fmt::Write>(&self, f: &mut fmt::Formatter<W>) -> fmt::Result {
        let address = self.0.address;
        let val = ShownVal(self.0.val);
        write!(f, "{address:04X}={val}")
    }
}

/// Interrupts and banks.
pub fn fmt_core<W: fmt::Write>(core: &Core, f: &mut fmt::Formatter<W>) -> fmt::Result {
    let ime = ime_text(core.ime);
    let ie = ShownVal(core.ie);
    let controller = ShownController(core.ctl);
    write!(f, "{ime}, IE={ie}, {controller}")
}

/// How many bytes are on the stack.
fn fmt_bytes<W: fmt::Write>(state: &Abs, f: &mut fmt::Formatter<W>) -> fmt::Result {
    let bytes = state.items().len();
    write!(f, ", bytes on the stack: {bytes}")
}

/// How long OAM DMA may still run, if it may.
fn fmt_bound<W: fmt::Write>(bound: u8, f: &mut fmt::Formatter<W>) -> fmt::Result {
    if bound == 0 {
        Ok(())
    } else {
        write!(f, ", up to {bound} M-cycles of OAM DMA left")
    }
}

/// Cells, eight in a line.
fn fmt_cells<W: fmt::Write>(cells: &[Cell], f: &mut fmt::Formatter<W>) -> fmt::Result {
    for (number, cell) in cells.iter().enumerate() {
        let cell = ShownCell(*cell);
        if number % 8 == 0 {
            write!(f, "\n   ")?;
        }
        write!(f, " {cell}")?;
    }
    Ok(())
}

/// A whole state in some lines, each after a margin, the last without its end.
#[derive(Clone, Copy)]
pub struct ShownState<'a>(pub &'a Abs);

impl fmt::Display for ShownState<'_> {
    fn fmt<W: fmt::Write>(&self, f: &mut fmt::Formatter<W>) -> fmt::Result {
        let state = self.0;
        let registers = ShownRegisters(state);
        let flags = ShownFlags(state.core().flags);
        write!(f, "    {registers} {flags}\n    ")?;
        fmt_core(state.core(), f)?;
        fmt_bytes(state, f)?;
        fmt_bound(state.core().bound, f)?;
        fmt_cells(state.cells(), f)
    }
}
