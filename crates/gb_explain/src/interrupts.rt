//! Finds what a certificate lacks for interrupts, by the rules of version 3.

use crate::calls::{entered_at, inlined_gaps, range_gaps};
use crate::covering::back_gaps;
use crate::depth::{called_too_deep, held_too_deep};
use crate::gap::{After, GapKind, Gaps, GoesOn, TooDeep};
use gb_spelling::{INTERRUPT_COUNT, vector_of};
use gb_verify::{
    Abs, Cert, NodeRef, Program, Reason, Rules, Setting, left_by_dispatch, may_come, setting_of,
};

/// A node of a procedure, its state, and an interrupt that may come there.
#[derive(Clone, Copy)]
struct Dispatch<'a> {
    setting: Setting,
    procedure: u16,
    address: u16,
    state: &'a Abs,
    interrupt: u8,
}

impl<'a> Dispatch<'a> {
    /// What it leaves.
    fn left(&self) -> Abs {
        left_by_dispatch(self.setting.rules, self.address, self.state)
    }
}

/// The bytes that a dispatch would hold, or that a handler would need besides, where they are too many.
fn dispatch_too_deep(
    program: &Program<'_>,
    cert: &Cert<'_>,
    dispatch: &Dispatch<'_>,
) -> Option<TooDeep> {
    let Dispatch {
        setting,
        procedure,
        state,
        ..
    } = *dispatch;
    let rules = setting.rules;
    let held = state.items().len().saturating_add(2);
    let deep = held_too_deep(rules, cert, procedure, held);
    if deep.is_some() {
        return deep;
    }
    let handler = entered_at(
        program,
        cert,
        setting,
        vector_of(dispatch.interrupt),
        &dispatch.left(),
    )?;
    called_too_deep(rules, cert, procedure, held, handler)
}

fn deep_gaps(program: &Program<'_>, cert: &Cert<'_>, dispatch: &Dispatch<'_>) -> Option<Gaps> {
    if !dispatch.state.core().stack_set {
        return None;
    }
    let deep = dispatch_too_deep(program, cert, dispatch)?;
    Some(Gaps::plain(GapKind::TooDeep(deep)))
}

/// What is missing of a handler that is entered: its ranges, or what the procedure goes on with after it.
fn handler_gaps(
    program: &Program<'_>,
    cert: &Cert<'_>,
    dispatch: &Dispatch<'_>,
    left: &Abs,
    handler: u16,
) -> Option<Gaps> {
    let Dispatch {
        setting,
        procedure,
        address,
        ..
    } = *dispatch;
    let outside = range_gaps(cert, setting, procedure, handler);
    if outside.is_some() {
        return outside;
    }
    let way = GoesOn {
        after: After::Handler(handler),
        address,
    };
    back_gaps(program, cert, procedure, handler, way, left)
}

/// What is missing of a dispatch that isn't provided for.
fn unhandled_gaps(program: &Program<'_>, cert: &Cert<'_>, dispatch: &Dispatch<'_>) -> Option<Gaps> {
    let Dispatch {
        setting,
        procedure,
        state,
        ..
    } = *dispatch;
    if !state.core().stack_set {
        return Some(Gaps::plain(GapKind::StackNotSet));
    }
    let vector = vector_of(dispatch.interrupt);
    let left = dispatch.left();
    match entered_at(program, cert, setting, vector, &left) {
        Some(handler) => handler_gaps(program, cert, dispatch, &left, handler),
        None => inlined_gaps(program, cert, setting, procedure, vector, &left),
    }
}

/// What is missing of a dispatch, by the reason.
fn dispatch_gaps(
    program: &Program<'_>,
    cert: &Cert<'_>,
    reason: Reason,
    dispatch: &Dispatch<'_>,
) -> Option<Gaps> {
    match reason {
        Reason::Depth => deep_gaps(program, cert, dispatch),
        Reason::Interrupt => unhandled_gaps(program, cert, dispatch),
        _ => None,
    }
}

/// What is missing of the first interrupt that may come at a node in these states and against which the reason is.
pub(crate) fn interrupt_gaps(
    program: &Program<'_>,
    cert: &Cert<'_>,
    node: &NodeRef<'_>,
    reason: Reason,
    state: &Abs,
) -> Option<Gaps> {
    let procedure = node.procedure();
    let setting = setting_of(cert, procedure);
    if setting.rules == Rules::Simple {
        return None;
    }
    for interrupt in 0..INTERRUPT_COUNT {
        let dispatch = Dispatch {
            setting,
            procedure,
            address: node.address(),
            state,
            interrupt,
        };
        if may_come(interrupt, state.core()) {
            if let Some(gaps) = dispatch_gaps(program, cert, reason, &dispatch) {
                return Some(Gaps {
                    interrupt: Some(interrupt),
                    ..gaps
                });
            }
        }
    }
    None
}
