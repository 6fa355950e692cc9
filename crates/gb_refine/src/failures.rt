//! What there is to tell of failures.

use gb_findings::{Finding, InstructionFinding, PointerLoad, report_finding};
use gb_plans::{PointerSource, loaded_span, pointer_source, untracked_behind};
use gb_prune::gb_ops::op::Register;
use gb_prune::{Cause, Failure, PADDING, Rules, Run, Span, Spot};
use std::alloc::{AllocError, Global};
use std::collections::BTreeSet;

/// The most bytes of RAM that are named of those for which there was no room.
const LEFT_OUT: usize = 4;

/// What there is to tell of a failure, and where its pointer comes from in RAM.
pub(crate) fn told(
    alloc: Global,
    run: &Run<'_>,
    failure: &Failure,
    left_out: &BTreeSet<u16>,
) -> Result<Option<InstructionFinding>, AllocError> {
    let Some(node) = run.nodes.get(failure.node) else {
        return Ok(None);
    };
    let source = if failure.cause == Cause::JumpHl {
        // Of a jump that isn't told.
        PointerSource::none(alloc)
    } else {
        pointer_source(alloc, run, node.spot(), &failure.registers)?
    };
    let Some(mut finding) = told_with(alloc, run, failure, &source)? else {
        return Ok(None);
    };
    if !left_out.is_empty() {
        let behind = untracked_behind(alloc, run, node.spot(), &failure.registers)?;
        add_left_out(&behind, left_out, &mut finding.left_out)?;
    }
    Ok(Some(finding))
}

/// Those of some bytes of RAM for which there was no room.
fn add_left_out(
    bytes: &BTreeSet<u16>,
    left_out: &BTreeSet<u16>,
    all: &mut Vec<u16>,
) -> Result<(), AllocError> {
    for byte in bytes {
        if left_out.contains(byte) && all.len() < LEFT_OUT {
            all.push(*byte)?;
        }
    }
    Ok(())
}

/// What there is to tell of a failure whose pointer comes from here in RAM. Where it is loaded from several addresses, it is told
/// at that load, since it was lost there.
fn told_with(
    alloc: Global,
    run: &Run<'_>,
    failure: &Failure,
    source: &PointerSource,
) -> Result<Option<InstructionFinding>, AllocError> {
    let load = if is_told_at_load(failure.cause) {
        load_of(run, failure, source)?
    } else {
        None
    };
    let at = match load {
        Some((node, _)) => Failure { node, ..*failure },
        None => *failure,
    };
    let Some(mut finding) = InstructionFinding::of(alloc, run, &at)? else {
        return Ok(None);
    };
    if let Some(place) = run.place_of(failure.node) {
        finding.place = place;
    }
    if let Some((_, load)) = load {
        finding.load = Some(load);
    }
    add_cells(&source.cells, &mut finding.kept_in)?;
    finding.is_any_address = load.is_some() || is_open(run, failure, source);
    Ok(Some(finding))
}

/// Whether a failure is told at the load of its pointer.
fn is_told_at_load(cause: Cause) -> bool {
    matches!(cause, Cause::Store { .. } | Cause::CartridgeRam { .. })
}

/// How many addresses a store can reach at least whose pointer nothing bounds.
const WIDE: u16 = 0x1000;

/// Whether the pointer of a failure comes from cells, and nothing bounds it.
fn is_open(run: &Run<'_>, failure: &Failure, source: &PointerSource) -> bool {
    let Some(node) = run.nodes.get(failure.node) else {
        return false;
    };
    let registers = &node.state.core().registers;
    let mut is_any = false;
    for high in [Register::B, Register::D, Register::H] {
        let val = registers.get(high);
        let is_end = val.lo == 0 || val.hi == u8::MAX;
        is_any = is_any || (failure.registers.contains(high) && is_end);
    }
    let is_wide = match failure.cause {
        Cause::Store { span } => span.last.saturating_sub(span.first) >= WIDE,
        _ => false,
    };
    (is_any || is_wide) && !source.cells.is_empty()
}

/// Where the pointer of a failure is loaded from several addresses: from so many that none of them will ever be known, if the run has
/// seen the first of these loads alone.
fn load_of(
    run: &Run<'_>,
    failure: &Failure,
    source: &PointerSource,
) -> Result<Option<(usize, PointerLoad)>, AllocError> {
    if let Some(spot) = source.loads.iter().next() {
        return Ok(load_at(run, failure, *spot));
    }
    let Some(node) = run.nodes.get(failure.node) else {
        return Ok(None);
    };
    for spot in &source.counted {
        if let Some((number, first)) = load_at(run, failure, *spot)
            && let Some(ahead) = run.span_ahead(node, spot.point.address)?
        {
            let from = Span {
                first: first.from.first.min(ahead.first),
                last: first.from.last.max(ahead.last),
                ..ahead
            };
            if is_from_many(from) {
                return Ok(Some((number, PointerLoad { from, ..first })));
            }
        }
    }
    Ok(None)
}

/// Whether there are more bytes in a span than are ever known.
pub(crate) fn is_from_many(span: Span) -> bool {
    usize::from(span.last.saturating_sub(span.first)) >= Rules::Extended.cell_room()
}

/// The first node of a spot at which the pointer of a failure is loaded, and from where it may be loaded there.
fn load_at(run: &Run<'_>, failure: &Failure, spot: Spot) -> Option<(usize, PointerLoad)> {
    let number = *run.nodes_at(spot).first()?;
    let load = PointerLoad {
        from: loaded_span(run, spot)?,
        used_at: run.nodes.get(failure.node)?.key.point(),
    };
    Some((number, load))
}

fn add_cells(cells: &BTreeSet<u16>, kept_in: &mut Vec<u16>) -> Result<(), AllocError> {
    for cell in cells {
        kept_in.push(*cell)?;
    }
    Ok(())
}

/// A finding is told, unless it follows from those before it; before them all the bank that was left mapped, if it follows from one.
pub(crate) fn tell(finding: Finding, told: &mut Vec<Finding>) -> Result<(), AllocError> {
    if !is_consequence(told, &finding) {
        report_finding(finding, told)?;
    }
    Ok(())
}

/// Whether an finding mostly follows from those before it: the same procedure is entered again elsewhere, or padding is run.
fn is_consequence(told: &[Finding], finding: &Finding) -> bool {
    let Finding::Instruction(standing) = finding else {
        return false;
    };
    match standing.cause {
        Cause::Recursion { target } if target == PADDING => !told.is_empty(),
        Cause::Recursion { .. } => has_cause(told, standing.cause),
        _ => false,
    }
}

/// Whether one of the findings is a failure with this cause.
fn has_cause(told: &[Finding], cause: Cause) -> bool {
    for finding in told {
        if let Finding::Instruction(standing) = finding
            && standing.cause == cause
        {
            return true;
        }
    }
    false
}
