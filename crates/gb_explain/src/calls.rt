//! Finds what a certificate lacks for calls.

ghost use Rattle.std.specs.Prelude.{◌<◌, ◌≤◌, length, IfSome};

use crate::Differences;
use crate::covering::{NearGap, back_gaps, nearer, way_gap};
use crate::gap::{After, Claim, Gap, GapKind, Gaps, GoesOn, Uncallable};
use gb_verify::{
    Abs, Cert, Program, Rules, Setting, Successor, Target, are_ranges_inside, callee_at, enter,
    kept_of, ranges_of, setting_of, taken_by,
};

/// The node where a procedure begins, if that has the address.
fn entry_at(cert: &Cert<'_>, procedure: u16, address: u16) -> Option<u32>
    ensures { IfSome result (λ node. node < length cert.now.nodes) }
{
    if procedure >= cert.procedures() {
        return None;
    }
    let entry = cert.procedure(procedure).entry();
    if entry < cert.nodes() && cert.node(entry).address() == address {
        Some(entry)
    } else {
        None
    }
}

/// The base that a procedure says, where it isn't so many bytes below its caller's. By the rules of versions 1 and 2
/// none is said.
fn wrong_base(
    cert: &Cert<'_>,
    setting: Setting,
    procedure: u16,
    address: u16,
    below: usize,
) -> Option<Uncallable>
    requires { below ≤ 255 }
{
    if setting.rules == Rules::Simple {
        return None;
    }
    let base = setting_of(cert, procedure).known_base()?;
    let below = match setting.known_base() {
        None => None,
        Some(caller) if usize::from(base) + below == usize::from(caller) => return None,
        Some(_) => Some(below),
    };
    Some(Uncallable::Base {
        procedure,
        address,
        base,
        below,
    })
}

/// A procedure that takes more items over than its caller has. It is farther than each that doesn't.
fn taking_too_many(procedure: u16, address: u16, count: usize, held: usize) -> NearGap {
    NearGap {
        procedure,
        distance: u32::MAX,
        gap: Gap::plain(GapKind::Uncallable(Uncallable::Items {
            procedure,
            address,
            count,
            held,
        })),
    }
}

/// How near a procedure that begins at the node comes to be entered at its address from these states; at distance 0
/// nothing is missing.
fn near_entry(
    program: &Program<'_>,
    cert: &Cert<'_>,
    setting: Setting,
    procedure: u16,
    node: u32,
    state: &Abs,
) -> NearGap
    requires { node < length cert.now.nodes }
{
    let entry = cert.node(node);
    let address = entry.address();
    let claimed = entry.state();
    let (count, held) = (claimed.items().len(), state.items().len());
    if setting.rules == Rules::Extended && held < count {
        return taking_too_many(procedure, address, count, held);
    }
    let kept = kept_of(cert, procedure);
    let taken = taken_by(cert, procedure);
    let entered = enter(program, cert.region(), setting.rules, taken, &kept, state);
    let differences = Differences::of(program, setting.rules, &entered, &claimed).with_kept(
        kept.as_slice(),
    );
    let below = held.saturating_sub(count);
    match wrong_base(cert, setting, procedure, address, below) {
        Some(base) if differences.count == 0 => NearGap {
            procedure,
            distance: 1,
            gap: Gap::plain(GapKind::Uncallable(base)),
        },
        _ => NearGap {
            procedure,
            distance: differences.count,
            gap: Gap {
                kind: GapKind::Uncallable(Uncallable::Entry { procedure, address }),
                compared: Some((Claim::Node(node), differences)),
            },
        },
    }
}

/// The procedure but main that begins at an address and comes nearest to be entered there from these states.
fn nearest_entry(
    program: &Program<'_>,
    cert: &Cert<'_>,
    setting: Setting,
    address: u16,
    state: &Abs,
) -> Option<NearGap> {
    let mut nearest = None;
    for procedure in 1..cert.procedures() {
        if let Some(node) = entry_at(cert, procedure, address) {
            let next = near_entry(program, cert, setting, procedure, node, state);
            nearest = nearer(nearest, next);
        }
    }
    nearest
}

/// The procedure that is entered at an address from these states: the first from which nothing keeps them.
pub(crate) fn entered_at(
    program: &Program<'_>,
    cert: &Cert<'_>,
    setting: Setting,
    address: u16,
    state: &Abs,
) -> Option<u16> {
    match nearest_entry(program, cert, setting, address, state) {
        Some(near) if near.distance == 0 => Some(near.procedure),
        _ => None,
    }
}

/// What there is at an address where no procedure is entered from these states.
fn entry_gap(
    program: &Program<'_>,
    cert: &Cert<'_>,
    setting: Setting,
    address: u16,
    state: &Abs,
) -> Gap {
    match nearest_entry(program, cert, setting, address, state) {
        None => Gap::plain(GapKind::Uncallable(Uncallable::NoProcedure { address })),
        Some(near) => near.gap,
    }
}

/// What is missing where no procedure is entered from these states, which aren't covered at the address in the same
/// procedure either.
pub(crate) fn inlined_gaps(
    program: &Program<'_>,
    cert: &Cert<'_>,
    setting: Setting,
    procedure: u16,
    address: u16,
    state: &Abs,
) -> Option<Gaps> {
    let way = GoesOn {
        after: After::Inlined(procedure),
        address,
    };
    let second = way_gap(program, cert, procedure, way, state)?;
    Some(Gaps {
        interrupt: None,
        first: entry_gap(program, cert, setting, address, state),
        second: Some(second),
        broken: None,
    })
}

/// What is missing where a call leads: after its callee, or where no procedure is entered.
pub(crate) fn called_gaps(
    program: &Program<'_>,
    cert: &Cert<'_>,
    procedure: u16,
    address: u16,
    successor: &Successor<'_>,
) -> Option<Gaps> {
    let setting = setting_of(cert, procedure);
    let state = successor.state();
    match callee_at(program, cert, setting, successor) {
        Some(callee) => {
            let way = GoesOn {
                after: After::Call(callee),
                address: successor.next,
            };
            back_gaps(program, cert, procedure, callee, way, &state)
        }
        None if setting.rules == Rules::Extended => {
            inlined_gaps(program, cert, setting, procedure, address, &state)
        }
        None => None,
    }
}

/// The range of a callee that lies in none of its caller's. By the rules of version 3 main's callees may have any.
pub(crate) fn range_gaps(
    cert: &Cert<'_>,
    setting: Setting,
    procedure: u16,
    callee: u16,
) -> Option<Gaps> {
    if setting.rules == Rules::Extended && setting.is_main {
        return None;
    }
    let outer = ranges_of(cert, procedure);
    let inner = ranges_of(cert, callee);
    for range in inner.as_slice() {
        if !are_ranges_inside(&[*range], outer.as_slice()) {
            return Some(Gaps::plain(GapKind::Uncallable(Uncallable::Range {
                callee,
                range: *range,
                procedure,
            })));
        }
    }
    None
}

/// What is missing of a call. By the rules of version 3 it may do without a callee.
pub(crate) fn callee_gaps(
    program: &Program<'_>,
    cert: &Cert<'_>,
    procedure: u16,
    successor: &Successor<'_>,
) -> Option<Gaps> {
    let Target::Call(address) = successor.target else {
        return None;
    };
    let setting = setting_of(cert, procedure);
    match callee_at(program, cert, setting, successor) {
        Some(callee) => range_gaps(cert, setting, procedure, callee),
        None if setting.rules == Rules::Simple => Some(Gaps::of(entry_gap(
            program,
            cert,
            setting,
            address,
            &successor.state(),
        ))),
        None => None,
    }
}
