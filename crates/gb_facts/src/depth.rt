//! How deep the stack gets.

use crate::facts::Facts;
use crate::link::{CallLink, EnteredBy};
use crate::procedure::ProcedureFacts;
use std::alloc::{AllocError, Global};

/// Whether the stack is known to get no deeper. A certificate that is refused may have procedures that call one another in a
/// circle.
#[derive(Clone, Copy, PartialEq, Eq)]
pub enum Bound {
    Known,
    Circle,
}

/// A step of the way to the greatest depth: a procedure, and the link by which it goes on, or none where it holds the most itself.
#[derive(Clone, Copy, PartialEq, Eq)]
pub struct StackStep {
    pub procedure: u16,
    pub link: Option<CallLink>,
}

/// What a procedure's depth is, if there is one by that number.
fn depth_of(procedures: &[ProcedureFacts], number: u16) -> Option<u32> {
    let procedure = procedures.get(usize::from(number))?;
    Some(procedure.depth)
}

/// Makes a caller as deep as a link makes it, and answers whether it was less deep.
fn deepen(procedures: &mut Vec<ProcedureFacts>, place: usize, link: &CallLink) -> bool {
    let Some(callee) = link.callee else {
        return false;
    };
    let Some(below) = depth_of(procedures.as_slice(), callee) else {
        return false;
    };
    let depth = below.saturating_add(u32::from(link.waiting));
    let Some(caller) = procedures.get_mut(usize::from(link.caller)) else {
        return false;
    };
    if depth <= caller.depth {
        return false;
    }
    caller.depth = depth;
    caller.deepest = Some(place);
    true
}

/// Whether what a link enters runs in a handler.
fn is_handled(procedures: &[ProcedureFacts], link: &CallLink) -> bool {
    match link.by {
        EnteredBy::Interrupt(_) => true,
        EnteredBy::Call => match procedures.get(usize::from(link.caller)) {
            Some(caller) => caller.is_in_handler,
            None => false,
        },
    }
}

/// Says of a callee that it may run in a handler, where the link leads there, and answers whether that is new.
fn tell_handler(procedures: &mut Vec<ProcedureFacts>, link: &CallLink) -> bool {
    let Some(callee) = link.callee else {
        return false;
    };
    if !is_handled(procedures.as_slice(), link) {
        return false;
    }
    match procedures.get_mut(usize::from(callee)) {
        Some(callee) if !callee.is_in_handler => {
            callee.is_in_handler = true;
            true
        }
        _ => false,
    }
}

/// Follows each link once, and answers whether something changed.
fn follow(procedures: &mut Vec<ProcedureFacts>, links: &[CallLink]) -> bool {
    let mut has_changed = false;
    for (place, link) in links.iter().enumerate() {
        let is_deeper = deepen(procedures, place, link);
        let is_told = tell_handler(procedures, link);
        if is_deeper || is_told {
            has_changed = true;
        }
    }
    has_changed
}

/// Finds each procedure's depth, and which may run in handlers: links are followed until nothing changes. No way goes through
/// more procedures than there are, but where some call one another in a circle.
pub(crate) fn settle(procedures: &mut Vec<ProcedureFacts>, links: &[CallLink]) -> Bound {
    for _ in 0..=procedures.len() {
        if !follow(procedures, links) {
            return Bound::Known;
        }
    }
    Bound::Circle
}

/// The step that a procedure's deepest way begins with.
pub fn steps_from(
    procedures: &[ProcedureFacts],
    links: &[CallLink],
    number: u16,
) -> Option<StackStep> {
    let procedure = procedures.get(usize::from(number))?;
    let link = match procedure.deepest {
        Some(place) => match links.get(place) {
            Some(link) => Some(*link),
            None => None,
        },
        None => None,
    };
    Some(StackStep {
        procedure: number,
        link,
    })
}

/// The procedures on a procedure's deepest way, itself first. Where some call one another in a circle, the way is cut off.
///
/// # Errors
///
/// Where memory ran out.
pub fn way_from(alloc: Global, facts: &Facts, number: u16) -> Result<Vec<u16>, AllocError> {
    let mut way = Vec::new(alloc);
    let mut next = Some(number);
    for _ in 0..facts.longest_way() {
        let Some(number) = next else { break };
        way.push(number)?;
        next = next_from(facts, number);
    }
    Ok(way)
}

/// The procedure that comes next on a procedure's deepest way.
fn next_from(facts: &Facts, number: u16) -> Option<u16> {
    facts.step(number)?.link?.callee
}
