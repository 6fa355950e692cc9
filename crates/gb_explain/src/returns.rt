//! Finds what a certificate lacks for returns.

use crate::Differences;
use crate::gap::{Amount, Claim, Gap, GapKind, Gaps, Unreturnable};
use gb_verify::{
    Abs, Cert, Halves, Program, Rules, Setting, Successor, Target, covers, exit_of, kept_of,
    setting_of,
};

fn plain(unreturnable: Unreturnable) -> Gaps {
    Gaps::plain(GapKind::Unreturnable(unreturnable))
}

/// What is missing of an exit. By the rules of versions 1 and 2 nothing may be held then.
fn exit_gaps(
    program: &Program<'_>,
    cert: &Cert<'_>,
    procedure: u16,
    state: &Abs,
    exit: &Abs,
) -> Option<Gaps> {
    let rules = setting_of(cert, procedure).rules;
    let held = state.items().len();
    if rules == Rules::Simple && held != 0 {
        return Some(plain(Unreturnable::Held {
            held: Amount::of(rules, held),
        }));
    }
    if covers(program, state, exit) {
        return None;
    }
    let kept = kept_of(cert, procedure);
    let differences = Differences::of(program, rules, state, exit).with_kept(kept.as_slice());
    Some(Gaps::of(Gap {
        kind: GapKind::Unreturnable(Unreturnable::Exit { procedure }),
        compared: Some((Claim::Exit, differences)),
    }))
}

/// What is missing where the procedure returns.
fn back_gaps(
    program: &Program<'_>,
    cert: &Cert<'_>,
    setting: Setting,
    procedure: u16,
    successor: &Successor<'_>,
) -> Option<Gaps> {
    if setting.is_main {
        return Some(plain(Unreturnable::Main));
    }
    match exit_of(cert, procedure) {
        None => Some(plain(Unreturnable::NoExit { procedure })),
        Some(exit) => exit_gaps(program, cert, procedure, &successor.state(), &exit),
    }
}

/// What is missing of a return from these states that leads nowhere.
fn lost_gaps(setting: Setting, state: &Abs) -> Gaps {
    if !state.core().stack_set {
        return Gaps::plain(GapKind::StackNotSet);
    }
    let items = state.items();
    match items {
        [.., high, low] => plain(Unreturnable::Lost {
            word: Halves {
                high: *high,
                low: *low,
            },
            is_main: setting.is_main,
        }),
        _ => plain(Unreturnable::NoWord {
            held: Amount::Bytes(items.len()),
        }),
    }
}

/// What is missing of a return from these states.
pub(crate) fn return_gaps(
    program: &Program<'_>,
    cert: &Cert<'_>,
    procedure: u16,
    state: &Abs,
    successor: &Successor<'_>,
) -> Option<Gaps> {
    let setting = setting_of(cert, procedure);
    match successor.target {
        Target::Return => back_gaps(program, cert, setting, procedure, successor),
        Target::Lost => Some(lost_gaps(setting, state)),
        Target::At(_) | Target::Call(_) | Target::Main(_) | Target::Unknown => None,
    }
}
