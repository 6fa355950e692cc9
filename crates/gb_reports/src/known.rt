//! What is known at an instruction: what matters to the finding first, and then the rest in short.

use crate::state::{gate_text, ime_text};
use gb_facts::{INTERRUPT_COUNT, interrupt_name};
use gb_findings::finding::InstructionFinding;
use gb_findings::gb_fixpoint::cause::{Cause, TransferMisuse};
use gb_findings::gb_fixpoint::{Abs, Cell, Val, cell_at};
use gb_findings::gb_ops::op::Register;
use gb_findings::gb_symbols::{ShownAddress, Symbols};
use std::fmt;

/// The most other bytes of RAM that are named.
const CELLS: usize = 4;

/// Something that is known.
#[derive(Clone, Copy, PartialEq, Eq)]
enum KnownItem {
    Bc,
    De,
    Hl,
    Single(Register),
    Bank,
    Gate,
    /// How long OAM DMA may still run.
    Transfer,
    Interrupts,
    /// How many bytes are on the stack.
    Pushed,
}

/// All of them, in the order in which they are printed.
const ITEMS: [KnownItem; 15] = [
    KnownItem::Hl,
    KnownItem::De,
    KnownItem::Bc,
    KnownItem::Single(Register::A),
    KnownItem::Single(Register::B),
    KnownItem::Single(Register::C),
    KnownItem::Single(Register::D),
    KnownItem::Single(Register::E),
    KnownItem::Single(Register::H),
    KnownItem::Single(Register::L),
    KnownItem::Bank,
    KnownItem::Gate,
    KnownItem::Transfer,
    KnownItem::Interrupts,
    KnownItem::Pushed,
];

/// A byte's values: `3`, `$40`, `$40..$7F`, or `0..255` where nothing is known.
#[derive(Clone, Copy)]
struct ByteRange(Val);

fn fmt_byte<W: fmt::Write>(byte: u8, f: &mut fmt::Formatter<W>) -> fmt::Result {
    if byte < 10 {
        write!(f, "{byte}")
    } else {
        write!(f, "${byte:02X}")
    }
}

impl ByteRange {
    fn is_unknown(&self) -> bool {
        self.0.lo == 0 && self.0.hi == 255
    }
}

impl fmt::Display for ByteRange {
    fn fmt<W: fmt::Write>(&self, f: &mut fmt::Formatter<W>) -> fmt::Result {
        let Val { lo, hi, .. } = self.0;
        if self.is_unknown() {
            return write!(f, "0..255");
        }
        fmt_byte(lo, f)?;
        if lo < hi {
            write!(f, "..")?;
            fmt_byte(hi, f)?;
        }
        Ok(())
    }
}

/// The values of a pair, from what is known of its bytes and of both together.
fn fmt_pair<W: fmt::Write>(
    name: &'static str,
    high: Val,
    low: Val,
    bounds: (u16, u16),
    f: &mut fmt::Formatter<W>,
) -> fmt::Result {
    let least = u16::from(high.lo) << 8 | u16::from(low.lo);
    let most = u16::from(high.hi) << 8 | u16::from(low.hi);
    let first = least.max(bounds.0);
    let last = most.min(bounds.1);
    if first == last {
        write!(f, "{name} = ${first:04X}")
    } else {
        write!(f, "{name} = ${first:04X}..${last:04X}")
    }
}

/// A register's name as RGBDS writes it.
pub(crate) fn lower_name(register: Register) -> &'static str {
    match register {
        Register::A => "a",
        Register::B => "b",
        Register::C => "c",
        Register::D => "d",
        Register::E => "e",
        Register::H => "h",
        Register::L => "l",
    }
}

/// Which ROM bank is mapped.
fn fmt_bank<W: fmt::Write>(state: &Abs, f: &mut fmt::Formatter<W>) -> fmt::Result {
    let ctl = state.core().ctl;
    let (lo, hi) = (ctl.bank_lo, ctl.bank_hi);
    if lo == hi {
        write!(f, "bank {lo} mapped")
    } else if lo == 0 && hi >= 127 {
        write!(f, "any bank mapped")
    } else {
        write!(f, "bank {lo}..{hi} mapped")
    }
}

/// The interrupts that IE enables, where that is known.
fn fmt_enabled<W: fmt::Write>(ie: Val, f: &mut fmt::Formatter<W>) -> fmt::Result {
    if ie.lo != ie.hi {
        let ie = ByteRange(ie);
        return write!(f, " (IE = {ie})");
    }
    if ie.lo % 32 == 0 {
        return write!(f, " (IE: none)");
    }
    let mut before = " (IE: ";
    for bit in 0..INTERRUPT_COUNT {
        if ie.lo >> bit & 1 == 1 {
            let name = interrupt_name(bit);
            write!(f, "{before}{name}")?;
            before = ", ";
        }
    }
    write!(f, ")")
}

fn fmt_interrupts<W: fmt::Write>(state: &Abs, f: &mut fmt::Formatter<W>) -> fmt::Result {
    let core = state.core();
    let ime = ime_text(core.ime);
    write!(f, "{ime}")?;
    fmt_enabled(core.ie, f)
}

/// The values of a pair.
fn fmt_pair_item<W: fmt::Write>(
    state: &Abs,
    item: KnownItem,
    f: &mut fmt::Formatter<W>,
) -> fmt::Result {
    let registers = state.core().registers;
    let pairs = state.relations().pairs;
    match item {
        KnownItem::Bc => {
            let bounds = (pairs.bc.bounds.first, pairs.bc.bounds.last);
            fmt_pair("bc", registers.b, registers.c, bounds, f)
        }
        KnownItem::De => {
            let bounds = (pairs.de.bounds.first, pairs.de.bounds.last);
            fmt_pair("de", registers.d, registers.e, bounds, f)
        }
        _ => {
            let bounds = (pairs.hl.bounds.first, pairs.hl.bounds.last);
            fmt_pair("hl", registers.h, registers.l, bounds, f)
        }
    }
}

/// What is known of an item.
fn fmt_item<W: fmt::Write>(state: &Abs, item: KnownItem, f: &mut fmt::Formatter<W>) -> fmt::Result {
    match item {
        KnownItem::Bc | KnownItem::De | KnownItem::Hl => fmt_pair_item(state, item, f),
        KnownItem::Single(register) => {
            let name = lower_name(register);
            let range = ByteRange(state.core().registers.get(register));
            write!(f, "{name} = {range}")
        }
        KnownItem::Bank => fmt_bank(state, f),
        KnownItem::Gate => {
            let gate = gate_text(state.core().ctl.gate);
            write!(f, "cartridge RAM {gate}")
        }
        KnownItem::Transfer => {
            let bound = state.core().bound;
            write!(f, "up to {bound} M-cycles of OAM DMA left")
        }
        KnownItem::Interrupts => fmt_interrupts(state, f),
        KnownItem::Pushed => {
            let bytes = state.items().len();
            write!(f, "{bytes} bytes on the stack")
        }
    }
}

/// Whether the registers hold an address that matters: of a store, a read or a jump.
fn is_by_pointer(cause: Cause) -> bool {
    matches!(
        cause,
        Cause::Store { .. }
            | Cause::CartridgeRam { .. }
            | Cause::CopiesCartridgeRam { .. }
            | Cause::JumpHl
            | Cause::Stack(_)
            | Cause::OamTransfer(TransferMisuse::Access(_) | TransferMisuse::Start(_))
    )
}

/// Whether a register holds the address of the access or the jump, or a part of it.
fn has(finding: &InstructionFinding, register: Register) -> bool {
    is_by_pointer(finding.cause) && finding.registers.contains(register)
}

/// Whether both registers hold it.
fn has_both(finding: &InstructionFinding, high: Register, low: Register) -> bool {
    has(finding, high) && has(finding, low)
}

/// Whether a register alone holds a part of it.
fn has_alone(finding: &InstructionFinding, register: Register) -> bool {
    let other = match register {
        Register::B => Register::C,
        Register::C => Register::B,
        Register::D => Register::E,
        Register::E => Register::D,
        Register::H => Register::L,
        Register::L => Register::H,
        Register::A => return has(finding, Register::A),
    };
    has(finding, register) && !has(finding, other)
}

fn matters_of_stack(cause: Cause) -> bool {
    matches!(
        cause,
        Cause::Stack(_)
            | Cause::PushesTooMany
            | Cause::ReturnWithBytes { .. }
            | Cause::ReturnWithOthers
            | Cause::ReturnToUnknown
    )
}

fn matters_of_interrupts(cause: Cause) -> bool {
    matches!(
        cause,
        Cause::Halt
            | Cause::Recursion { .. }
            | Cause::InterruptWithoutStack { .. }
            | Cause::OamTransfer(TransferMisuse::Interrupt)
    )
}

/// Whether an item matters to a finding.
fn matters(finding: &InstructionFinding, item: KnownItem) -> bool {
    let cause = finding.cause;
    match item {
        KnownItem::Bc => has_both(finding, Register::B, Register::C),
        KnownItem::De => has_both(finding, Register::D, Register::E),
        KnownItem::Hl => has_both(finding, Register::H, Register::L),
        KnownItem::Single(register) => has_alone(finding, register),
        KnownItem::Bank => cause == Cause::Bank,
        KnownItem::Gate => matches!(
            cause,
            Cause::CartridgeRam { .. } | Cause::CopiesCartridgeRam { .. }
        ),
        KnownItem::Transfer => matches!(cause, Cause::OamTransfer(_)),
        KnownItem::Interrupts => matters_of_interrupts(cause),
        KnownItem::Pushed => matters_of_stack(cause),
    }
}

/// Whether a register has one value.
fn is_single(finding: &InstructionFinding, register: Register) -> bool {
    let val = finding.state.core().registers.get(register);
    val.lo == val.hi
}

/// Whether a pair has one value, and isn't a pointer that matters.
fn is_known_pair(finding: &InstructionFinding, high: Register, low: Register) -> bool {
    is_single(finding, high) && is_single(finding, low) && !has(finding, high) && !has(finding, low)
}

/// Whether a register is printed with its pair.
fn is_in_known_pair(finding: &InstructionFinding, register: Register) -> bool {
    match register {
        Register::A => false,
        Register::B | Register::C => is_known_pair(finding, Register::B, Register::C),
        Register::D | Register::E => is_known_pair(finding, Register::D, Register::E),
        Register::H | Register::L => is_known_pair(finding, Register::H, Register::L),
    }
}

/// Whether an item is one of the rest: a register of which something is known, or the bank.
fn is_rest(finding: &InstructionFinding, item: KnownItem) -> bool {
    match item {
        KnownItem::Single(register) => {
            let range = ByteRange(finding.state.core().registers.get(register));
            !has(finding, register) && !range.is_unknown() && !is_in_known_pair(finding, register)
        }
        KnownItem::Bc => is_known_pair(finding, Register::B, Register::C),
        KnownItem::De => is_known_pair(finding, Register::D, Register::E),
        KnownItem::Hl => is_known_pair(finding, Register::H, Register::L),
        KnownItem::Bank => finding.cause != Cause::Bank,
        _ => false,
    }
}

/// Prints an item after some text, and answers what comes before the next one.
fn fmt_after<W: fmt::Write>(
    before: &'static str,
    state: &Abs,
    item: KnownItem,
    f: &mut fmt::Formatter<W>,
) -> Result<&'static str, fmt::Error> {
    write!(f, "{before}")?;
    fmt_item(state, item, f)?;
    Ok(BETWEEN)
}

/// What separates two items.
const BETWEEN: &str = "; ";

/// A byte of RAM by its symbol, with its values.
fn fmt_cell<W: fmt::Write>(
    symbols: &Symbols<'_>,
    cell: Cell,
    f: &mut fmt::Formatter<W>,
) -> fmt::Result {
    let at = ShownAddress {
        symbols: &*symbols,
        bank: None,
        address: cell.address,
    };
    let range = ByteRange(cell.val);
    write!(f, "{at} = {range}")
}

/// The bytes from which the pointer was loaded.
fn fmt_kept<W: fmt::Write>(
    finding: &InstructionFinding,
    symbols: &Symbols<'_>,
    before: &'static str,
    f: &mut fmt::Formatter<W>,
) -> Result<&'static str, fmt::Error> {
    let mut before = before;
    for address in &finding.kept_in {
        write!(f, "{before}")?;
        let cell = Cell {
            address: *address,
            val: cell_at(*address, finding.state.cells()),
        };
        fmt_cell(symbols, cell, f)?;
        before = BETWEEN;
    }
    Ok(before)
}

/// What matters.
fn fmt_mattering<W: fmt::Write>(
    finding: &InstructionFinding,
    symbols: &Symbols<'_>,
    f: &mut fmt::Formatter<W>,
) -> Result<&'static str, fmt::Error> {
    let mut before = FIRST;
    for item in ITEMS {
        if matters(finding, item) {
            before = fmt_after(before, &finding.state, item, f)?;
        }
    }
    fmt_kept(finding, symbols, before, f)
}

/// What begins the first line, and the second one.
const FIRST: &str = "\n  Known here: ";

const SECOND: &str = "\n  Also: ";

/// Other bytes of RAM of which something is known.
fn fmt_cells<W: fmt::Write>(
    finding: &InstructionFinding,
    symbols: &Symbols<'_>,
    before: &'static str,
    f: &mut fmt::Formatter<W>,
) -> fmt::Result {
    let mut before = before;
    let mut left = CELLS;
    for cell in finding.state.cells() {
        if left > 0
            && !finding.kept_in.contains(&cell.address)
            && !ByteRange(cell.val).is_unknown()
        {
            write!(f, "{before}")?;
            fmt_cell(symbols, *cell, f)?;
            before = BETWEEN;
            left = left.saturating_sub(1);
        }
    }
    Ok(())
}

/// What is known at an instruction: some lines, each after an end of line.
#[derive(Clone, Copy)]
pub(crate) struct ShownKnown<'a> {
    pub(crate) finding: &'a InstructionFinding,
    pub(crate) symbols: &'a Symbols<'a>,
}

impl fmt::Display for ShownKnown<'_> {
    fn fmt<W: fmt::Write>(&self, f: &mut fmt::Formatter<W>) -> fmt::Result {
        let ShownKnown { finding, symbols } = *self;
        let first = fmt_mattering(finding, symbols, f)?;
        let mut before = if first == FIRST { FIRST } else { SECOND };
        for item in ITEMS {
            if is_rest(finding, item) {
                before = fmt_after(before, &finding.state, item, f)?;
            }
        }
        fmt_cells(finding, symbols, before, f)
    }
}
