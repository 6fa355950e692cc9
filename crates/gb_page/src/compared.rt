//! What a new certificate changed, as JSON.

use crate::changed::name_of;
use crate::changes::{Build, Changes};
use crate::interrupts::interrupt_text;
use gb_reports::gb_ops::machine::Region;
use gb_reports::{Difference, JsonObject, Side};
use serde_json::Value;
use std::alloc::{AllocError, Global};

/// Whether something is new or gone.
fn side_text(side: Side) -> &'static str {
    match side {
        Side::New => "new",
        Side::Gone => "gone",
    }
}

/// A region.
fn region_json(alloc: Global, region: Region) -> Result<Value, AllocError> {
    let mut object = JsonObject::new(alloc);
    object.put_address("first", region.first)?;
    object.put_address("last", region.last)?;
    Ok(object.finish())
}

/// What is otherwise of the stack's region.
fn put_region(object: &mut JsonObject, before: Region, now: Region) -> Result<(), AllocError> {
    let alloc = object.alloc;
    object.put_text("of", "region")?;
    object.put("before", region_json(alloc, before)?)?;
    object.put("now", region_json(alloc, now)?)
}

/// What is otherwise, and on which side, of which procedure.
fn put_subject(
    object: &mut JsonObject,
    of: &str,
    side: Side,
    name: &str,
) -> Result<(), AllocError> {
    object.put_text("of", of)?;
    object.put_text("side", side_text(side))?;
    object.put_text("procedure", name)
}

/// A difference's members.
fn put_difference(
    object: &mut JsonObject,
    changes: &Changes,
    difference: Difference,
) -> Result<(), AllocError> {
    match difference {
        Difference::Region { before, now } => put_region(object, before, now),
        Difference::Procedure { side, place, need } => {
            put_subject(object, "procedure", side, name_of(changes, side, place))?;
            object.put_address("need", need)
        }
        Difference::Need { place, before, now } => {
            object.put_text("of", "need")?;
            object.put_text("procedure", changes.now.name(place))?;
            object.put_address("before", before)?;
            object.put_address("now", now)
        }
        Difference::Writes { side, place, range } => {
            put_subject(object, "writes", side, changes.now.name(place))?;
            object.put_address("first", range.first)?;
            object.put_address("last", range.last)
        }
        Difference::Coming {
            side,
            place,
            interrupt,
        } => {
            put_subject(object, "interrupt", side, changes.now.name(place))?;
            object.put_text("interrupt", interrupt_text(interrupt))
        }
        Difference::Bank { side, bank } => {
            object.put_text("of", "bank")?;
            object.put_text("side", side_text(side))?;
            object.put_address("bank", bank)
        }
    }
}

/// A difference.
fn difference_json(
    alloc: Global,
    changes: &Changes,
    difference: Difference,
) -> Result<Value, AllocError> {
    let mut object = JsonObject::new(alloc);
    put_difference(&mut object, changes, difference)?;
    Ok(object.finish())
}

/// All differences.
fn all_differences(alloc: Global, changes: &Changes) -> Result<Value, AllocError> {
    let mut values = Vec::new(alloc);
    for difference in &changes.differences {
        values.push(difference_json(alloc, changes, *difference)?)?;
    }
    Ok(Value::Array(values))
}

/// The names on the deepest way; null where it isn't known.
fn way_json(alloc: Global, build: &Build) -> Result<Value, AllocError> {
    if build.way.is_empty() {
        return Ok(Value::Null);
    }
    let mut values = Vec::new(alloc);
    for place in &build.way {
        values.push(Value::try_from_str(alloc, build.name(*place))?)?;
    }
    Ok(Value::Array(values))
}

/// One of both certificates: the bytes of stack that it allows, and its deepest way.
fn build_json(alloc: Global, build: &Build) -> Result<Value, AllocError> {
    let mut object = JsonObject::new(alloc);
    object.put_address("stack", build.outline.need())?;
    object.put("way", way_json(alloc, build)?)?;
    Ok(object.finish())
}

/// What a new certificate changed.
pub(crate) fn changes_value(alloc: Global, changes: &Changes) -> Result<Value, AllocError> {
    let mut object = JsonObject::new(alloc);
    object.put_flag("is_changed", !changes.is_none())?;
    object.put("before", build_json(alloc, &changes.before)?)?;
    object.put("now", build_json(alloc, &changes.now)?)?;
    object.put("differences", all_differences(alloc, changes)?)?;
    Ok(object.finish())
}

/// What a new certificate changed, as JSON in one line without its end.
///
/// # Errors
///
/// Where memory ran out.
pub fn changes_json(alloc: Global, changes: &Changes) -> Result<String, AllocError> {
    changes_value(alloc, changes)?.to_string(alloc)
}
