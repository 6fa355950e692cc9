//! Finds which node comes nearest where the program goes on.

use crate::Differences;
use crate::gap::{Claim, Gap, GapKind, Gaps, GoesOn, Uncovered};
use gb_verify::{
    Abs, Cert, Program, Resumed, covered_at, exit_of, kept_of, ranges_of, resume, setting_of,
    taken_by,
};

/// What comes near to what is wanted: of which procedure it is, in how many parts it differs, and what is missing.
#[derive(Clone, Copy)]
pub(crate) struct NearGap {
    pub(crate) procedure: u16,
    pub(crate) distance: u32,
    pub(crate) gap: Gap,
}

/// The one of two that differs in fewer parts, the first of equal ones.
pub(crate) fn nearer(first: Option<NearGap>, second: NearGap) -> Option<NearGap> {
    match first {
        Some(near) if near.distance <= second.distance => first,
        _ => Some(second),
    }
}

/// The node of a procedure where the program goes on that differs in the fewest parts.
fn nearest_node(
    program: &Program<'_>,
    cert: &Cert<'_>,
    procedure: u16,
    way: GoesOn,
    state: &Abs,
) -> Option<NearGap> {
    let rules = setting_of(cert, procedure).rules;
    let kept = kept_of(cert, procedure);
    let found = cert.find(procedure, way.address).found;
    let mut nearest = None;
    for node in found.first..found.after {
        let claimed = cert.node(node).state();
        let differences = Differences::of(program, rules, state, &claimed).with_kept(
            kept.as_slice(),
        );
        let next = NearGap {
            procedure,
            distance: differences.count,
            gap: Gap {
                kind: GapKind::Uncovered(Uncovered::Node { way, node }),
                compared: Some((Claim::Node(node), differences)),
            },
        };
        nearest = nearer(nearest, next);
    }
    nearest
}

/// What is missing where the program goes on, if no node of the procedure covers the state.
pub(crate) fn way_gap(
    program: &Program<'_>,
    cert: &Cert<'_>,
    procedure: u16,
    way: GoesOn,
    state: &Abs,
) -> Option<Gap> {
    let rules = setting_of(cert, procedure).rules;
    if covered_at(program, rules, cert, procedure, way.address, state) {
        return None;
    }
    match nearest_node(program, cert, procedure, way, state) {
        None => Some(Gap::plain(GapKind::Uncovered(Uncovered::NoNode { way, procedure }))),
        Some(near) => Some(near.gap),
    }
}

/// The gap on the way, if nothing else is missing.
pub(crate) fn way_gaps(
    program: &Program<'_>,
    cert: &Cert<'_>,
    procedure: u16,
    way: GoesOn,
    state: &Abs,
) -> Option<Gaps> {
    let gap = way_gap(program, cert, procedure, way, state)?;
    Some(Gaps::of(gap))
}

/// What is missing where a procedure goes on after a callee that was entered in these states.
pub(crate) fn back_gaps(
    program: &Program<'_>,
    cert: &Cert<'_>,
    procedure: u16,
    callee: u16,
    way: GoesOn,
    state: &Abs,
) -> Option<Gaps> {
    let setting = setting_of(cert, procedure);
    let exit = exit_of(cert, callee)?;
    let ranges = ranges_of(cert, callee);
    let taken = taken_by(cert, callee);
    match resume(
        program,
        setting,
        cert.region(),
        taken,
        ranges.as_slice(),
        &kept_of(cert, callee),
        state,
        &exit,
    ) {
        Resumed::Nothing => None,
        Resumed::TooDeep => Some(Gaps::plain(GapKind::Uncovered(Uncovered::Overfull { way }))),
        Resumed::States(resumed) => way_gaps(program, cert, procedure, way, &resumed),
    }
}
