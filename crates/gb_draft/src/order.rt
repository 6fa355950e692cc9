//! The order of procedures in a certificate. The checker takes the first procedure that stands for what is entered, so
//! each call must find its own one before others.

use gb_fixpoint::code_point::CodePoint;
use gb_fixpoint::entries::Entered;
use gb_fixpoint::keys::ProcedureKey;
use gb_fixpoint::register_set::REGISTERS;
use gb_fixpoint::types::{Run, RunProcedure};
use gb_fixpoint::{Abs, Core, ImeSet, Rules, Val, covers};
use std::alloc::{AllocError, Global};
use std::collections::{BTreeMap, BTreeSet};

/// A procedure that has to come before another one, since it is entered in a state that the other one covers too.
#[derive(Clone, Copy, PartialEq, Eq, PartialOrd, Ord)]
pub struct Precedence {
    pub before: usize,
    pub after: usize,
}

/// A procedure, and how much its first node leaves open.
#[derive(Clone, Copy, PartialEq, Eq, PartialOrd, Ord)]
struct Ranked {
    width: usize,
    number: usize,
}

/// The most cells of a state by any rules.
const CELLS: usize = 64;

/// By target, the numbers of the procedures that begin there.
type Entries = BTreeMap<CodePoint, Vec<usize>>;

/// How many values there are beside the first.
fn width(val: &Val) -> usize {
    usize::from(val.hi.saturating_sub(val.lo))
}

/// How wide a set is beside the intervals.
fn ime_width(ime: &ImeSet) -> usize {
    let mut sum = 0usize;
    for may_be in [ime.off, ime.pending, ime.on] {
        if may_be {
            sum = sum.saturating_add(300);
        }
    }
    sum
}

/// How much a core leaves open, memory cells apart.
fn core_width(core: &Core) -> usize {
    let banks = core.ctl.bank_hi.saturating_sub(core.ctl.bank_lo);
    let mut sum = usize::from(banks)
        .saturating_add(width(&core.ie))
        .saturating_add(ime_width(&core.ime))
        .saturating_add(usize::from(core.bound));
    for register in &REGISTERS {
        let val = core.registers.get(*register);
        sum = sum.saturating_add(width(&val));
    }
    sum
}

/// How much a state leaves open, memory cells last.
fn state_width(state: &Abs) -> usize {
    let unknown = CELLS.saturating_sub(state.cells().len());
    core_width(state.core())
        .saturating_mul(CELLS)
        .saturating_add(unknown)
}

/// A procedure of version 4, by the address of its entry and its place among those of one address.
#[derive(Clone, Copy, PartialEq, Eq, PartialOrd, Ord)]
struct Addressed {
    address: u16,
    place: usize,
    number: usize,
}

/// The numbers of the procedures in the order of a certificate: main, then narrow ones first, but none before one
/// that has to precede it. In version 4 they stand by the addresses of their entries, and so only where these are one.
pub(crate) fn order(alloc: Global, run: &Run<'_>) -> Result<Vec<usize>, AllocError> {
    let mut open = by_width(alloc, run)?;
    let mut precedences = precedences(alloc, run)?;
    let mut order = vec![in alloc; 0]?;
    add_in_order(
        run.procedures.len(),
        &mut open,
        &mut precedences,
        &mut order,
    )?;
    if run.is_fourth() {
        let addresses = addresses(alloc, run)?;
        return by_address(alloc, order.as_slice(), addresses.as_slice());
    }
    Ok(order)
}

/// The addresses of the entries of a run's procedures.
fn addresses(alloc: Global, run: &Run<'_>) -> Result<Vec<u16>, AllocError> {
    run.procedures
        .iter()
        .map(|procedure| procedure.key.target)
        .collect(alloc)
}

/// These procedures by the addresses of their entries, main first; those of one address as they stood.
///
/// # Errors
///
/// Where memory ran out.
pub fn by_address(
    alloc: Global,
    order: &[usize],
    addresses: &[u16],
) -> Result<Vec<usize>, AllocError> {
    let mut addressed = Vec::new(alloc);
    for (place, number) in order.iter().enumerate() {
        let address = match addresses.get(*number) {
            Some(address) if *number != 0 => *address,
            _ => 0,
        };
        addressed.push(Addressed {
            address,
            place,
            number: *number,
        })?;
    }
    addressed.sort()?;
    addressed
        .iter()
        .map(|procedure| procedure.number)
        .collect(alloc)
}

/// Takes open procedures one after another, none before one that has to precede it, until there are so many.
///
/// # Errors
///
/// Where memory ran out.
pub fn add_in_order(
    count: usize,
    open: &mut Vec<usize>,
    precedences: &mut BTreeSet<Precedence>,
    order: &mut Vec<usize>,
) -> Result<(), AllocError> {
    for _ in 1..count {
        let Some(next) = next_of(open.as_slice(), precedences) else {
            return Ok(());
        };
        open.retain(|procedure| *procedure != next);
        precedences.retain(|precedence| precedence.before != next);
        order.push(next)?;
    }
    Ok(())
}

/// All procedures but main, narrow ones first.
fn by_width(alloc: Global, run: &Run<'_>) -> Result<Vec<usize>, AllocError> {
    let mut entered = Vec::new(alloc);
    add_widths(run, &mut entered)?;
    entered.sort()?;
    entered
        .iter()
        .map(|procedure| procedure.number)
        .collect(alloc)
}

fn add_widths(run: &Run<'_>, entered: &mut Vec<Ranked>) -> Result<(), AllocError> {
    for (number, procedure) in run.procedures.iter().enumerate() {
        if number != 0
            && let Some(entry) = procedure.entry
            && let Some(node) = run.nodes.get(entry)
        {
            entered.push(Ranked {
                width: state_width(&node.state),
                number,
            })?;
        }
    }
    Ok(())
}

/// Which procedures have to come before which others.
fn precedences(alloc: Global, run: &Run<'_>) -> Result<BTreeSet<Precedence>, AllocError> {
    let entries = entries(alloc, run)?;
    let sites = sites(alloc, run)?;
    let mut precedences = BTreeSet::new(alloc);
    for site in &sites {
        add_at_site(run, &entries, *site, &mut precedences)?;
    }
    Ok(precedences)
}

/// The nodes that enter procedures.
fn sites(alloc: Global, run: &Run<'_>) -> Result<BTreeSet<usize>, AllocError> {
    let mut sites = BTreeSet::new(alloc);
    for procedure in &run.procedures {
        for site in &procedure.sites {
            sites.insert(*site)?;
        }
    }
    Ok(sites)
}

/// By target, the procedures that begin there.
fn entries(alloc: Global, run: &Run<'_>) -> Result<Entries, AllocError> {
    let mut entries = BTreeMap::new(alloc);
    for (number, procedure) in run.procedures.iter().enumerate() {
        if number != 0 {
            add_entry(&mut entries, procedure.key.point(), number)?;
        }
    }
    Ok(entries)
}

fn add_entry(entries: &mut Entries, target: CodePoint, number: usize) -> Result<(), AllocError> {
    entries.entry(target)?.or_default().push(number)?;
    Ok(())
}

/// What comes before what, by all that a node enters.
fn add_at_site(
    run: &Run<'_>,
    entries: &Entries,
    site: usize,
    precedences: &mut BTreeSet<Precedence>,
) -> Result<(), AllocError> {
    let all = run.entered_from(site)?;
    add_of_all(run, entries, all.as_slice(), precedences)
}

fn add_of_all(
    run: &Run<'_>,
    entries: &Entries,
    all: &[Entered],
    precedences: &mut BTreeSet<Precedence>,
) -> Result<(), AllocError> {
    for entered in all {
        if let Some(before) = run.own_procedure(entered)
            && let Some(others) = entries.get(&entered.target)
        {
            add_others(run, before, others.as_slice(), entered, precedences)?;
        }
    }
    Ok(())
}

/// The other procedures of a target that cover what is entered have to come behind its own.
fn add_others(
    run: &Run<'_>,
    before: usize,
    others: &[usize],
    entered: &Entered,
    precedences: &mut BTreeSet<Precedence>,
) -> Result<(), AllocError> {
    for after in others {
        if *after != before && covers_entry(run, *after, entered) {
            precedences.insert(Precedence {
                before,
                after: *after,
            })?;
        }
    }
    Ok(())
}

/// Whether a procedure with a base takes over what the one takes that is entered, its base being right.
fn fits(run: &Run<'_>, procedure: &RunProcedure, entered: &Entered) -> bool {
    let ProcedureKey { base, taken, .. } = procedure.key;
    let waiting = entered.held.saturating_sub(usize::from(taken));
    let is_right = base == 0
        || (entered.caller != 0
            && usize::from(base).saturating_add(waiting) == usize::from(entered.caller));
    run.rules() == Rules::Simple || (taken == entered.context.taken && is_right)
}

/// Whether the first node of a procedure stands for what is entered.
fn covers_entry(run: &Run<'_>, procedure: usize, entered: &Entered) -> bool {
    let Some(procedure) = run.procedures.get(procedure) else {
        return false;
    };
    let Some(entry) = procedure.entry else {
        return false;
    };
    match run.nodes.get(entry) {
        Some(node) => fits(run, procedure, entered)
            && covers(&run.program(), &entered.state, &node.state),
        None => false,
    }
}

/// The first procedure that none of the others has to precede; where each has one, the first.
fn next_of(open: &[usize], precedences: &BTreeSet<Precedence>) -> Option<usize> {
    for procedure in open {
        if !has_to_wait(*procedure, precedences) {
            return Some(*procedure);
        }
    }
    open.first().copied()
}

/// Whether another procedure has to precede one.
fn has_to_wait(procedure: usize, precedences: &BTreeSet<Precedence>) -> bool {
    for precedence in precedences {
        if precedence.after == procedure {
            return true;
        }
    }
    false
}
