//! Finds where the stack grows too deep.

ghost use Rattle.std.specs.Prelude.{◌<◌};

use crate::gap::{Amount, GapKind, Gaps, TooDeep};
use gb_verify::gb_ops::op::{Op, Pair};
use gb_verify::{Abs, Cert, Program, Rules, Successor, callee_at, need_of, setting_of, taken_by};

/// So many bytes that are held, where they are more than the procedure needs or than a state can hold.
pub(crate) fn held_too_deep(
    rules: Rules,
    cert: &Cert<'_>,
    procedure: u16,
    bytes: usize,
) -> Option<TooDeep> {
    let held = Amount::of(rules, bytes);
    let need = usize::from(need_of(cert, procedure));
    if need < bytes {
        return Some(TooDeep::Need {
            held,
            procedure,
            need: Amount::of(rules, need),
        });
    }
    let room = rules.item_room();
    if room < bytes {
        return Some(TooDeep::State {
            held,
            room: Amount::of(rules, room),
        });
    }
    None
}

/// The bytes of a caller that wait below a callee, of so many that it holds, and how many the return address takes
/// besides. By the rules of version 3 it is among those that are held and that the callee takes over.
fn waiting_below(rules: Rules, cert: &Cert<'_>, held: usize, callee: u16) -> (usize, usize) {
    match rules {
        Rules::Simple => (held, 2),
        Rules::Extended => (held.saturating_sub(usize::from(taken_by(cert, callee))), 0),
    }
}

/// What waits below a callee with what that needs, where it is more than the procedure needs.
pub(crate) fn called_too_deep(
    rules: Rules,
    cert: &Cert<'_>,
    procedure: u16,
    held: usize,
    callee: u16,
) -> Option<TooDeep> {
    let need = usize::from(need_of(cert, procedure));
    let wanted = usize::from(need_of(cert, callee));
    let (waiting, returning) = waiting_below(rules, cert, held, callee);
    let sum = waiting.saturating_add(returning).saturating_add(wanted);
    if sum <= need {
        return None;
    }
    Some(TooDeep::Callee {
        waiting: Amount::of(rules, waiting),
        callee,
        wanted: Amount::of(rules, wanted),
        sum: Amount::of(rules, sum),
        procedure,
        need: Amount::of(rules, need),
    })
}

/// How many bytes are held after an instruction that puts some on, or adds a number to SP.
fn bytes_after(op: Op, held: usize) -> Option<usize>
    requires { held < 65536 }
{
    match op {
        Op::Push(_) | Op::CallIf(_, _) | Op::Call(_) | Op::Restart(_) => Some(held + 2),
        Op::DecrementPair(Pair::Sp) => Some(held + 1),
        Op::AddSp(e8) if e8 < 128 => Some(held.saturating_sub(usize::from(e8))),
        Op::AddSp(e8) => Some(held + (256 - usize::from(e8))),
        _ => None,
    }
}

/// How many bytes are held after an instruction that alone may hold too many. By the rules of versions 1 and 2
/// that is PUSH alone: a call's return address is no item.
fn bytes_left(rules: Rules, op: Op, held: usize) -> Option<usize>
    requires { held < 65536 }
{
    match (rules, op) {
        (Rules::Simple, Op::Push(_)) => Some(held + 2),
        (Rules::Simple, _) => None,
        (Rules::Extended, _) => bytes_after(op, held),
    }
}

/// The bytes that an instruction leaves on the stack, where they are too many.
pub(crate) fn moved_gaps(
    cert: &Cert<'_>,
    procedure: u16,
    state: &Abs,
    op: Op,
    taken: &Option<Successor<'_>>,
) -> Option<Gaps> {
    let rules = setting_of(cert, procedure).rules;
    if rules == Rules::Extended && taken.is_none() {
        return None;
    }
    let bytes = bytes_left(rules, op, state.items().len())?;
    let deep = held_too_deep(rules, cert, procedure, bytes)?;
    Some(Gaps::plain(GapKind::TooDeep(deep)))
}

/// What a call would need, where it is too much.
pub(crate) fn call_gaps(
    program: &Program<'_>,
    cert: &Cert<'_>,
    procedure: u16,
    successor: &Successor<'_>,
) -> Option<Gaps> {
    let setting = setting_of(cert, procedure);
    let callee = callee_at(program, cert, setting, successor)?;
    let held = successor.state().items().len();
    let deep = called_too_deep(setting.rules, cert, procedure, held, callee)?;
    Some(Gaps::plain(GapKind::TooDeep(deep)))
}
