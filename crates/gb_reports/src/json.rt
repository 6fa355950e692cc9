//! Findings as JSON: one object for each, on a line of its own.

use crate::Symbols;
use crate::object::{JsonObject, pair};
use crate::problem::Problem;
use crate::shown::ShownOther;
use crate::state::ime_text;
use crate::topic::{advice_on, instruction_advice, remedy_of};
use gb_facts::{Advice, interrupt_at};
use gb_findings::chain::{CallChain, EnteredRoutine, Root};
use gb_findings::finding::{Finding, InstructionFinding};
use gb_findings::gb_fixpoint::{Abs, Cell, May, Val};
use gb_findings::gb_ops::registers::Registers;
use gb_findings::gb_symbols::SourceLine;
use gb_findings::lost_bank::{BankLoser, LostBank};
use gb_findings::path::{Path, Segment, Start};
use gb_findings::steps_back::MappedBanks;
use serde_json::Value;
use std::alloc::{AllocError, Global};

/// The registers, each with its least and greatest value.
fn put_registers(object: &mut JsonObject, registers: &Registers<Val>) -> Result<(), AllocError> {
    object.put_val("a", registers.a)?;
    object.put_val("b", registers.b)?;
    object.put_val("c", registers.c)?;
    object.put_val("d", registers.d)?;
    object.put_val("e", registers.e)?;
    object.put_val("h", registers.h)?;
    object.put_val("l", registers.l)
}

/// The registers as an object.
fn registers_json(alloc: Global, registers: &Registers<Val>) -> Result<Value, AllocError> {
    let mut object = JsonObject::new(alloc);
    put_registers(&mut object, registers)?;
    Ok(object.finish())
}

/// A cell that is known.
fn cell_json(alloc: Global, cell: Cell) -> Result<Value, AllocError> {
    let mut object = JsonObject::new(alloc);
    object.put_address("address", cell.address)?;
    object.put_val("value", cell.val)?;
    Ok(object.finish())
}

/// Adds the cells that are known.
fn gather_cells(alloc: Global, cells: &[Cell], values: &mut Vec<Value>) -> Result<(), AllocError> {
    for cell in cells {
        values.push(cell_json(alloc, *cell)?)?;
    }
    Ok(())
}

/// The cells that are known.
fn cells_json(alloc: Global, cells: &[Cell]) -> Result<Value, AllocError> {
    let mut values = Vec::new(alloc);
    gather_cells(alloc, cells, &mut values)?;
    Ok(Value::Array(values))
}

/// A state's registers and cells.
fn put_values(object: &mut JsonObject, state: &Abs) -> Result<(), AllocError> {
    let registers = registers_json(object.alloc, &state.core().registers)?;
    object.put("registers", registers)?;
    let cells = cells_json(object.alloc, state.cells())?;
    object.put("cells", cells)
}

/// What the gate of cartridge RAM may be.
fn gate_text(gate: May) -> &'static str {
    match (gate.clear, gate.set) {
        (true, false) => "closed",
        (false, true) => "open",
        _ => "open or closed",
    }
}

/// A state's registers, cells, banks, bytes on the stack, interrupts and gate.
fn put_state(object: &mut JsonObject, state: &Abs) -> Result<(), AllocError> {
    let core = state.core();
    let ctl = core.ctl;
    put_values(object, state)?;
    object.put_pair("bank", u64::from(ctl.bank_lo), u64::from(ctl.bank_hi))?;
    object.put_number("bytes", state.items().len() as u64)?;
    object.put_text("interrupts", ime_text(core.ime))?;
    object.put_text("gate", gate_text(ctl.gate))
}

/// A state.
fn state_json(alloc: Global, state: &Abs) -> Result<Value, AllocError> {
    let mut object = JsonObject::new(alloc);
    put_state(&mut object, state)?;
    Ok(object.finish())
}

/// By what a procedure is entered.
fn start_text(start: Start) -> &'static str {
    match start {
        Start::PowerUp => "power-up",
        Start::Call { .. } => "call",
        Start::Interrupt { .. } => "interrupt",
    }
}

/// Where a path begins: how, and at which address.
fn put_start(object: &mut JsonObject, start: Start) -> Result<(), AllocError> {
    object.put_text("by", start_text(start))?;
    match start {
        Start::PowerUp => Ok(()),
        Start::Call { from, target } | Start::Interrupt { from, target } => {
            object.put_address("from", from.address)?;
            object.put_address("target", target.address)
        }
    }
}

/// The start of a path.
fn start_json(alloc: Global, start: Start) -> Result<Value, AllocError> {
    let mut object = JsonObject::new(alloc);
    put_start(&mut object, start)?;
    Ok(object.finish())
}

/// Adds the addresses that were gone through.
fn gather_segments(
    alloc: Global,
    segments: &[Segment],
    values: &mut Vec<Value>,
) -> Result<(), AllocError> {
    for segment in segments {
        let segment = pair(alloc, u64::from(segment.first), u64::from(segment.last))?;
        values.push(segment)?;
    }
    Ok(())
}

/// The addresses that were gone through.
fn segments_json(alloc: Global, segments: &[Segment]) -> Result<Value, AllocError> {
    let mut values = Vec::new(alloc);
    gather_segments(alloc, segments, &mut values)?;
    Ok(Value::Array(values))
}

/// A path: its start, and the addresses that were gone through.
fn put_path(object: &mut JsonObject, path: &Path) -> Result<(), AllocError> {
    let start = start_json(object.alloc, path.start)?;
    object.put("start", start)?;
    let segments = segments_json(object.alloc, &path.segments)?;
    object.put("segments", segments)?;
    object.put_flag("cut", path.is_cut)
}

/// A path.
fn path_json(alloc: Global, path: &Path) -> Result<Value, AllocError> {
    let mut object = JsonObject::new(alloc);
    put_path(&mut object, path)?;
    Ok(object.finish())
}

/// The symbol of an address, or null.
fn put_symbol(
    object: &mut JsonObject,
    symbols: &Symbols<'_>,
    bank: Option<u16>,
    address: u16,
) -> Result<(), AllocError> {
    let bank = match bank {
        Some(bank) => bank,
        None => 0,
    };
    match symbols.place(bank, address) {
        Some(place) => object.put_shown("symbol", &place),
        None => object.put("symbol", Value::Null),
    }
}

/// The author's line, or null.
fn put_line(object: &mut JsonObject, line: Option<SourceLine<'_>>) -> Result<(), AllocError> {
    match line {
        Some(line) => object.put_shown("line", &line),
        None => object.put("line", Value::Null),
    }
}

/// Where a finding is.
fn put_place(
    object: &mut JsonObject,
    finding: &InstructionFinding,
    symbols: &Symbols<'_>,
) -> Result<(), AllocError> {
    object.put_address("address", finding.address)?;
    match finding.bank {
        Some(bank) => object.put_address("bank", bank)?,
        None => object.put("bank", Value::Null)?,
    }
    put_symbol(object, symbols, finding.bank, finding.address)?;
    put_line(object, finding.line(symbols))
}

/// What fails.
fn put_problem(
    object: &mut JsonObject,
    finding: &InstructionFinding,
    symbols: &Symbols<'_>,
) -> Result<(), AllocError> {
    object.put_shown("code", &finding.code)?;
    object.put_shown("problem", &Problem { finding, symbols })?;
    object.put_number("reason", u64::from(finding.cause.reason().number()))
}

/// Why it matters, how to fix it, and the section of the documents.
fn put_advice(
    object: &mut JsonObject,
    advice: Advice,
    remedy: &'static str,
) -> Result<(), AllocError> {
    object.put_text("rule", advice.problem)?;
    object.put_text("remedy", remedy)?;
    object.put_text("anchor", advice.anchor)
}

/// In what state, and on which way.
fn put_history(object: &mut JsonObject, finding: &InstructionFinding) -> Result<(), AllocError> {
    let state = state_json(object.alloc, &finding.state)?;
    object.put("state", state)?;
    let path = path_json(object.alloc, &finding.path)?;
    object.put("path", path)
}

/// The name of what a chain of calls begins with.
fn root_text(root: Root) -> &'static str {
    match root {
        Root::PowerUp => "power-up",
        Root::Interrupt { vector } => interrupt_at(vector).unwrap_or("interrupt"),
    }
}

/// A call: where, and of what.
fn call_json(
    alloc: Global,
    call: &EnteredRoutine,
    symbols: &Symbols<'_>,
) -> Result<Value, AllocError> {
    let mut object = JsonObject::new(alloc);
    object.put_address("from", call.from)?;
    object.put_address("target", call.target)?;
    put_symbol(&mut object, symbols, call.bank, call.target)?;
    Ok(object.finish())
}

/// Adds the calls of a chain.
fn gather_calls(
    alloc: Global,
    calls: &[EnteredRoutine],
    symbols: &Symbols<'_>,
    values: &mut Vec<Value>,
) -> Result<(), AllocError> {
    for call in calls {
        values.push(call_json(alloc, call, symbols)?)?;
    }
    Ok(())
}

/// The calls of a chain, the outermost first.
fn calls_json(
    alloc: Global,
    calls: &[EnteredRoutine],
    symbols: &Symbols<'_>,
) -> Result<Value, AllocError> {
    let mut values = Vec::new(alloc);
    gather_calls(alloc, calls, symbols, &mut values)?;
    Ok(Value::Array(values))
}

/// A chain of calls, with what it begins with.
fn put_chain(
    object: &mut JsonObject,
    chain: &CallChain,
    symbols: &Symbols<'_>,
) -> Result<(), AllocError> {
    let alloc = object.alloc;
    let calls = calls_json(alloc, &chain.calls, symbols)?;
    let mut inner = JsonObject::new(alloc);
    inner.put_text("root", root_text(chain.root))?;
    inner.put("calls", calls)?;
    object.put("call_chain", inner.finish())
}

/// Some banks, by the first and the last.
fn put_banks(object: &mut JsonObject, name: &str, banks: MappedBanks) -> Result<(), AllocError> {
    object.put_pair(name, u64::from(banks.first), u64::from(banks.last))
}

/// A bank that was left mapped: by what, instead of which, and where it was mapped.
fn loss_json(alloc: Global, lost: &LostBank) -> Result<Value, AllocError> {
    let mut object = JsonObject::new(alloc);
    match lost.by {
        BankLoser::Handler { vector } => object.put_address("handler", vector)?,
        BankLoser::Routine { target } => object.put_address("routine", target.address)?,
        BankLoser::Instruction => {}
    }
    object.put_address("at", lost.at.address)?;
    put_banks(&mut object, "was", lost.was)?;
    put_banks(&mut object, "now", lost.now)?;
    if let Some(mapping) = lost.mapping {
        object.put_address("mapped_at", mapping.point.address)?;
    }
    Ok(object.finish())
}

/// In what state, on which way, and what else may be the cause.
fn put_circumstances(
    object: &mut JsonObject,
    finding: &InstructionFinding,
) -> Result<(), AllocError> {
    put_history(object, finding)?;
    object.put_addresses("kept_in", &finding.kept_in)?;
    object.put_addresses("left_out", &finding.left_out)?;
    object.put_addresses("switching", &finding.switching)?;
    if let Some(pushed) = finding.pushed_return {
        object.put_address("pushed_at", pushed.pushed_at.address)?;
        object.put_address("goes_to", pushed.leads_to.address)?;
    }
    if let Some(lost) = &finding.lost_bank {
        let loss = loss_json(object.alloc, lost)?;
        object.put("lost_bank", loss)?;
    }
    object.put_flag("too_large", finding.is_too_large)
}

/// A failure at an instruction.
fn put_instruction(
    object: &mut JsonObject,
    finding: &InstructionFinding,
    symbols: &Symbols<'_>,
) -> Result<(), AllocError> {
    put_place(object, finding, symbols)?;
    let advice = instruction_advice(finding);
    put_problem(object, finding, symbols)?;
    put_advice(object, advice, advice.remedy_in(finding.is_of_c(symbols)))?;
    put_chain(object, &finding.chain, symbols)?;
    put_circumstances(object, finding)
}

/// A finding.
fn put_finding(
    object: &mut JsonObject,
    finding: &Finding,
    symbols: &Symbols<'_>,
) -> Result<(), AllocError> {
    if let Finding::Instruction(finding) = finding {
        return put_instruction(object, finding, symbols);
    }
    put_line(object, finding.line(symbols))?;
    object.put_shown("problem", &ShownOther { finding, symbols })?;
    put_advice(object, advice_on(finding), remedy_of(finding, symbols))
}

/// The JSON of a finding, in one line without its end.
///
/// # Errors
///
/// Where memory ran out.
pub fn finding_json(
    alloc: Global,
    finding: &Finding,
    symbols: &Symbols<'_>,
) -> Result<String, AllocError> {
    let mut object = JsonObject::new(alloc);
    put_finding(&mut object, finding, symbols)?;
    object.finish().to_string(alloc)
}
