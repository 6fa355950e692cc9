//! The same facts as JSON, for programs: one object.

use crate::compared::changes_value;
use crate::page::Extras;
use crate::stack::by_text;
use gb_reports::{
    Bound, CallLink, Cert, CodeRun, Exit, Facts, JsonObject, ProcedureFacts, Range, Rom, Symbols,
    Verdict,
};
use serde_json::Value;
use std::alloc::{AllocError, Global};

/// A number, or null where there is none.
fn number_or_null(number: Option<u64>) -> Value {
    match number {
        Some(number) => Value::from(number),
        None => Value::Null,
    }
}

/// Where the certificate is refused, the node and the reason.
fn refused_json(alloc: Global, verdict: Verdict) -> Result<Value, AllocError> {
    let Verdict::Refused { node, reason } = verdict else {
        return Ok(Value::Null);
    };
    let mut object = JsonObject::new(alloc);
    object.put_number("node", u64::from(node))?;
    object.put_number("reason", u64::from(reason.number()))?;
    Ok(object.finish())
}

/// How many bytes of the stack are ever used, where that is known.
fn used(facts: &Facts) -> Option<u64> {
    let main = facts.procedures.first()?;
    match facts.bound {
        Bound::Known => Some(u64::from(main.depth)),
        Bound::Circle => None,
    }
}

/// The stack: its region, its bytes, and how many of them are ever used.
fn stack_json(alloc: Global, facts: &Facts) -> Result<Value, AllocError> {
    let mut object = JsonObject::new(alloc);
    object.put_address("first", facts.region.first)?;
    object.put_address("last", facts.region.last)?;
    object.put_number("room", u64::from(facts.room()))?;
    object.put("used", number_or_null(used(facts)))?;
    Ok(object.finish())
}

/// Addresses one after another that hold code.
fn code_json(alloc: Global, run: CodeRun) -> Result<Value, AllocError> {
    let bank = match run.bank {
        Some(bank) => Value::from(u64::from(bank)),
        None => Value::Null,
    };
    let mut object = JsonObject::new(alloc);
    object.put("bank", bank)?;
    object.put_address("first", run.first)?;
    object.put_address("last", run.last)?;
    Ok(object.finish())
}

/// All code.
fn all_code(alloc: Global, facts: &Facts) -> Result<Value, AllocError> {
    let mut values = Vec::new(alloc);
    for run in &facts.code {
        values.push(code_json(alloc, *run)?)?;
    }
    Ok(Value::Array(values))
}

/// A range of RAM.
fn range_json(alloc: Global, range: Range) -> Result<Value, AllocError> {
    let mut object = JsonObject::new(alloc);
    object.put_address("first", range.first)?;
    object.put_address("last", range.last)?;
    Ok(object.finish())
}

/// What a procedure may write.
fn ranges_json(alloc: Global, ranges: &[Range]) -> Result<Value, AllocError> {
    let mut values = Vec::new(alloc);
    for range in ranges {
        values.push(range_json(alloc, *range)?)?;
    }
    Ok(Value::Array(values))
}

/// Which registers an exit gives back as they were.
fn put_kept(object: &mut JsonObject, exit: &Exit) -> Result<(), AllocError> {
    let registers = exit.registers;
    object.put_flag("a", registers.a)?;
    object.put_flag("f", exit.flags)?;
    object.put_flag("b", registers.b)?;
    object.put_flag("c", registers.c)?;
    object.put_flag("d", registers.d)?;
    object.put_flag("e", registers.e)?;
    object.put_flag("h", registers.h)?;
    object.put_flag("l", registers.l)?;
    object.put_flag("ie", exit.ie)?;
    object.put_flag("controller", exit.controller)
}

/// What a procedure gives back as it was; null where it doesn't return.
fn exit_json(alloc: Global, procedure: &ProcedureFacts) -> Result<Value, AllocError> {
    let Some(exit) = procedure.exit else {
        return Ok(Value::Null);
    };
    let mut object = JsonObject::new(alloc);
    put_kept(&mut object, &exit)?;
    object.put_addresses("bytes", procedure.kept.as_slice())?;
    Ok(object.finish())
}

/// Where a procedure begins, and its symbol.
fn put_place(
    object: &mut JsonObject,
    procedure: &ProcedureFacts,
    symbols: &Symbols<'_>,
) -> Result<(), AllocError> {
    object.put_address("bank", procedure.bank)?;
    object.put_address("address", procedure.address)?;
    match symbols.place(procedure.bank, procedure.address) {
        Some(place) => object.put_shown("symbol", &place),
        None => object.put("symbol", Value::Null),
    }
}

/// The bytes of stack that a procedure holds itself, with all that it enters, and that it is allowed.
fn put_depth(object: &mut JsonObject, procedure: &ProcedureFacts) -> Result<(), AllocError> {
    object.put_number("own", u64::from(procedure.own.bytes))?;
    object.put_number("depth", u64::from(procedure.depth))?;
    object.put_number("need", u64::from(procedure.need))
}

/// A procedure.
fn procedure_json(
    alloc: Global,
    procedure: &ProcedureFacts,
    symbols: &Symbols<'_>,
) -> Result<Value, AllocError> {
    let writes = ranges_json(alloc, procedure.ranges.as_slice())?;
    let keeps = exit_json(alloc, procedure)?;
    let mut object = JsonObject::new(alloc);
    put_place(&mut object, procedure, symbols)?;
    object.put_number("entry", u64::from(procedure.entry))?;
    object.put_number("nodes", u64::from(procedure.nodes))?;
    put_depth(&mut object, procedure)?;
    object.put("writes", writes)?;
    object.put("keeps", keeps)?;
    object.put_flag("in_handler", procedure.is_in_handler)?;
    Ok(object.finish())
}

/// All procedures, by their numbers.
fn all_procedures(
    alloc: Global,
    facts: &Facts,
    symbols: &Symbols<'_>,
) -> Result<Value, AllocError> {
    let mut values = Vec::new(alloc);
    for procedure in &facts.procedures {
        values.push(procedure_json(alloc, procedure, symbols)?)?;
    }
    Ok(Value::Array(values))
}

/// A call or an interrupt.
fn link_json(alloc: Global, link: &CallLink) -> Result<Value, AllocError> {
    let callee = match link.callee {
        Some(callee) => Value::from(u64::from(callee)),
        None => Value::Null,
    };
    let mut object = JsonObject::new(alloc);
    object.put_number("caller", u64::from(link.caller))?;
    object.put("callee", callee)?;
    object.put_text("by", by_text(link.by))?;
    object.put_number("waiting", u64::from(link.waiting))?;
    object.put_number("nodes", u64::from(link.nodes))?;
    object.put_number("node", u64::from(link.node))?;
    Ok(object.finish())
}

/// All calls and interrupts.
fn all_links(alloc: Global, facts: &Facts) -> Result<Value, AllocError> {
    let mut values = Vec::new(alloc);
    for link in &facts.links {
        values.push(link_json(alloc, link)?)?;
    }
    Ok(Value::Array(values))
}

/// What a new certificate changed; null where it isn't compared.
fn changes_or_null(alloc: Global, extras: Extras<'_>) -> Result<Value, AllocError> {
    match extras.changes {
        Some(changes) => changes_value(alloc, changes),
        None => Ok(Value::Null),
    }
}

/// The members of the whole.
fn put_facts(
    object: &mut JsonObject,
    facts: &Facts,
    symbols: &Symbols<'_>,
    extras: Extras<'_>,
) -> Result<(), AllocError> {
    let alloc = object.alloc;
    object.put("refused", refused_json(alloc, facts.verdict)?)?;
    object.put_number("version", u64::from(facts.version))?;
    object.put_number("nodes", u64::from(facts.nodes))?;
    object.put("stack", stack_json(alloc, facts)?)?;
    object.put("code", all_code(alloc, facts)?)?;
    object.put("procedures", all_procedures(alloc, facts, symbols)?)?;
    object.put("links", all_links(alloc, facts)?)?;
    object.put("changes", changes_or_null(alloc, extras)?)
}

/// The facts of a certificate for a cartridge, right or wrong, as JSON in one line without its end.
///
/// # Errors
///
/// Where memory ran out.
pub fn facts_json(
    alloc: Global,
    rom: &Rom<'_>,
    cert: &Cert<'_>,
    symbols: &Symbols<'_>,
    extras: Extras<'_>,
) -> Result<String, AllocError> {
    let facts = Facts::of(alloc, rom, cert)?;
    let mut object = JsonObject::new(alloc);
    put_facts(&mut object, &facts, symbols, extras)?;
    object.finish().to_string(alloc)
}
