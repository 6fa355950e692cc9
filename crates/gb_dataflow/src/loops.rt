//! Loops: paged, then keyed, and their counters split.

use crate::plan::{Edit, Plan, registers_at, split_at, unless_taken_back};
use crate::sources::{loaded_by, sources, without, written};
use crate::spots::{op_at, open_at, place_of, value_of};
use crate::waiting::place_at_hl;
use crate::ways::{Loop, Ways};
use gb_fixpoint::Rules;
use gb_fixpoint::code_point::CodePoint;
use gb_fixpoint::configuration::TargetPlace;
use gb_fixpoint::gb_ops::op::{Op, Operand, Register};
use gb_fixpoint::limits::COUNTER;
use gb_fixpoint::register_set::{REGISTERS, RegisterSet};
use gb_fixpoint::types::{Run, Spot};
use std::alloc::{AllocError, Global};
use std::collections::HashMap;

/// Whether all points of a loop are keyed.
fn is_keyed(run: &Run<'_>, target: CodePoint, around: &Loop) -> bool {
    around.iter().all(|point| run.configuration.keyed.contains(&TargetPlace {
        target,
        point: *point,
    }))
}

/// Whether all points of a loop are paged.
fn is_paged(run: &Run<'_>, target: CodePoint, around: &Loop) -> bool {
    around.iter().all(|point| run.configuration.paged.contains(&TargetPlace {
        target,
        point: *point,
    }))
}

/// A loop is paged, or keyed if it is paged already; by the rules of version 3 it is paged only where it looks at a page, since
/// pairs have bounds.
fn refine_loop(
    alloc: Global,
    run: &Run<'_>,
    ways: &Ways,
    procedure: usize,
    around: &Loop,
) -> Result<Option<Plan>, AllocError> {
    let target = run.target(procedure);
    let is_whole = run.rules() == Rules::Extended && !tests_page(run, procedure, around);
    if is_keyed(run, target, around) {
        return Ok(None);
    }
    let is_paged = is_paged(run, target, around);
    let plan = if is_whole || is_paged {
        Plan::key_all(alloc, run, ways, procedure, around)?
    } else {
        Plan::page_all(alloc, target, around)?
    };
    match unless_taken_back(run, plan) {
        None if is_paged && run.rules() == Rules::Extended => {
            key_without_pages(alloc, run, ways, procedure, around)
        }
        plan => Ok(plan),
    }
}

/// A paged loop is keyed, and paged no more: compiled code looks at high bytes that are no pointer's, and of these no page has to be
/// told apart.
fn key_without_pages(
    alloc: Global,
    run: &Run<'_>,
    ways: &Ways,
    procedure: usize,
    around: &Loop,
) -> Result<Option<Plan>, AllocError> {
    let target = run.target(procedure);
    let mut plan = Plan::key_all(alloc, run, ways, procedure, around)?;
    for point in around.iter() {
        plan.add(Edit::Unpage(TargetPlace {
            target,
            point: *point,
        }))?;
    }
    Ok(unless_taken_back(run, plan))
}

/// Whether a register has several values, but not too many, in a node at a spot that isn't its procedure's first.
fn is_wide_count(run: &Run<'_>, spot: Spot, register: Register) -> bool {
    for number in run.nodes_at(spot) {
        if let Some(node) = run.nodes.get(*number) {
            let val = value_of(node, register);
            if !node.key.is_entry && val.lo < val.hi && val.hi.saturating_sub(val.lo) <= COUNTER {
                return true;
            }
        }
    }
    false
}

/// The register that an instruction counts down.
fn counter_at(run: &Run<'_>, spot: Spot) -> Option<Register> {
    match op_at(run, spot)? {
        Op::Decrement(Operand::Register(register)) => Some(register),
        _ => None,
    }
}

/// The counter of a keyed loop is split where the loop is entered.
fn split_counter(
    alloc: Global,
    run: &Run<'_>,
    ways: &Ways,
    procedure: usize,
    around: &Loop,
) -> Result<Option<Plan>, AllocError> {
    let heads = ways.heads(around)?;
    for point in around.iter() {
        let spot = Spot {
            procedure,
            point: *point,
        };
        let Some(register) = counter_at(run, spot) else {
            continue;
        };
        for head in &heads {
            let spot = Spot {
                procedure,
                point: *head,
            };
            let place = place_of(run, spot);
            let is_split = split_at(&run.configuration, place).contains(register);
            if !is_split && is_wide_count(run, spot, register) {
                return Ok(Some(Plan::of(alloc, Edit::Split(place, register))?));
            }
        }
    }
    Ok(None)
}

/// The registers that a loop counts down, but for what is in another loop inside it.
fn counters_of(
    run: &Run<'_>,
    procedure: usize,
    around: &Loop,
    inner: Option<&Loop>,
) -> RegisterSet {
    let mut counters = RegisterSet::empty();
    for point in around.iter() {
        let is_inside = match inner {
            Some(inner) => inner.contains(point),
            None => false,
        };
        let spot = Spot {
            procedure,
            point: *point,
        };
        if !is_inside && let Some(register) = counter_at(run, spot) {
            counters.insert(register);
        }
    }
    counters
}

/// Whether a register is told apart so at each place of a loop.
fn is_told(
    told: &HashMap<TargetPlace, RegisterSet>,
    target: CodePoint,
    around: &Loop,
    register: Register,
) -> bool {
    around.iter().all(|point| {
        let place = TargetPlace {
            target,
            point: *point,
        };
        registers_at(told, place).contains(register)
    })
}

/// One edit at each place of a loop.
fn at_all(
    alloc: Global,
    target: CodePoint,
    around: &Loop,
    register: Register,
    is_peeled: bool,
) -> Result<Plan, AllocError> {
    let mut plan = Plan::new(alloc);
    for point in around.iter() {
        let place = TargetPlace {
            target,
            point: *point,
        };
        plan.add(if is_peeled {
            Edit::Peel(place, register)
        } else {
            Edit::Count(place, register)
        })?;
    }
    Ok(plan)
}

/// Whether a register may be 0 and more in a node where a loop is entered: a counter that began at 0, or ends there.
fn may_be_zero(run: &Run<'_>, procedure: usize, heads: &[CodePoint], register: Register) -> bool {
    for head in heads {
        let spot = Spot {
            procedure,
            point: *head,
        };
        for number in run.nodes_at(spot) {
            if let Some(node) = run.nodes.get(*number) {
                let val = value_of(node, register);
                if !node.key.is_entry && val.lo == 0 && val.hi > 0 {
                    return true;
                }
            }
        }
    }
    false
}

/// Whether a loop changes a register by counting alone: A is mostly counted on its way from and to RAM, and no counter then.
fn is_only_counted(run: &Run<'_>, procedure: usize, around: &Loop, register: Register) -> bool {
    around.iter().all(|point| {
        let spot = Spot {
            procedure,
            point: *point,
        };
        match op_at(run, spot) {
            Some(Op::Increment(Operand::Register(_)) | Op::Decrement(Operand::Register(_))) => true,
            Some(op) => !written(op).contains(register),
            None => true,
        }
    })
}

/// The first or the last round of a loop is told apart whose counter may be 0.
fn peel_loop(
    alloc: Global,
    run: &Run<'_>,
    ways: &Ways,
    procedure: usize,
    around: &Loop,
) -> Result<Option<Plan>, AllocError> {
    let target = run.target(procedure);
    let heads = ways.heads(around)?;
    let counters = counters_of(run, procedure, around, None);
    for register in REGISTERS {
        if counters.contains(register)
            && !is_told(&run.configuration.peeled, target, around, register)
            && (register != Register::A || is_only_counted(run, procedure, around, register))
            && may_be_zero(run, procedure, heads.as_slice(), register)
        {
            let plan = at_all(alloc, target, around, register, true)?;
            return Ok(unless_taken_back(run, plan));
        }
    }
    Ok(None)
}

/// Whether a counter at a point is looked at by a jump that has gone one way alone so far: a loop that it ends looks endless until
/// its last round is met.
fn may_end_at(run: &Run<'_>, ways: &Ways, procedure: usize, point: CodePoint) -> bool {
    let Some(behind) = ways.only_behind(point) else {
        return false;
    };
    let spot = Spot {
        procedure,
        point: behind,
    };
    matches!(
        op_at(run, spot),
        Some(Op::JumpIf(..) | Op::JumpRelativeIf(..))
    ) && ways.only_behind(behind).is_some()
}

/// Whether a loop ends, or may end by a register that it counts down.
fn ends_by(
    run: &Run<'_>,
    ways: &Ways,
    procedure: usize,
    around: &Loop,
    register: Register,
) -> bool {
    !ways.is_endless(around)
        || around.iter().any(|point| {
            let spot = Spot {
                procedure,
                point: *point,
            };
            counter_at(run, spot) == Some(register) && may_end_at(run, ways, procedure, *point)
        })
}

/// The rounds of a loop around another one are told apart by its counter.
fn count_rounds(
    alloc: Global,
    run: &Run<'_>,
    ways: &Ways,
    procedure: usize,
    around: &Loop,
    innermost: &Loop,
) -> Result<Option<Plan>, AllocError> {
    let target = run.target(procedure);
    let outer = counters_of(run, procedure, around, Some(innermost));
    let inner = counters_of(run, procedure, innermost, None);
    for register in REGISTERS {
        if outer.contains(register)
            && !inner.contains(register)
            && !is_told(&run.configuration.counted, target, around, register)
            && ends_by(run, ways, procedure, around, register)
        {
            let plan = at_all(alloc, target, around, register, false)?;
            return Ok(unless_taken_back(run, plan));
        }
    }
    Ok(None)
}

/// The bytes of the stack that a loop counts where they are, a bit for each by its place.
fn items_counted(run: &Run<'_>, procedure: usize, around: &Loop) -> u64 {
    let mut items: u64 = 0;
    for point in around.iter() {
        let spot = Spot {
            procedure,
            point: *point,
        };
        if let Some(Op::Increment(Operand::AtHl) | Op::Decrement(Operand::AtHl)) = op_at(run, spot)
            && let Some(place) = place_at_hl(run, spot)
            && let Ok(place) = u32::try_from(place)
            && place < u64::BITS
        {
            items |= 1u64 << place;
        }
    }
    items
}

/// The registers but A that a loop counts up or down.
fn registers_counted(run: &Run<'_>, procedure: usize, around: &Loop) -> RegisterSet {
    let mut counted = RegisterSet::empty();
    for point in around.iter() {
        let spot = Spot {
            procedure,
            point: *point,
        };
        if let Some(
            Op::Increment(Operand::Register(register)) | Op::Decrement(Operand::Register(register)),
        ) = op_at(run, spot)
            && register != Register::A
        {
            counted.insert(register);
        }
    }
    counted
}

/// The rounds of a loop are told apart by counters that it keeps on the stack, of which no comparison tells anything, and by those
/// in registers beside them.
fn count_items(
    alloc: Global,
    run: &Run<'_>,
    procedure: usize,
    around: &Loop,
) -> Result<Option<Plan>, AllocError> {
    let target = run.target(procedure);
    let items = items_counted(run, procedure, around);
    let registers = registers_counted(run, procedure, around);
    let mut plan = Plan::new(alloc);
    let mut is_new = false;
    for point in around.iter() {
        let place = TargetPlace {
            target,
            point: *point,
        };
        if run.configuration.items_at(place) & items != items {
            plan.add(Edit::CountItems(place, items))?;
            is_new = true;
            for register in REGISTERS {
                if registers.contains(register) {
                    plan.add(Edit::Count(place, register))?;
                }
            }
        }
    }
    if is_new {
        Ok(unless_taken_back(run, plan))
    } else {
        Ok(None)
    }
}

/// The pairs by which the innermost loop around a spot reads, where that loop has an end.
pub fn pointers_read(run: &Run<'_>, ways: &Ways, spot: Spot) -> Result<RegisterSet, AllocError> {
    let loops = ways.loops(spot.point)?;
    Ok(match loops.first() {
        Some(around) if !ways.is_endless(around) => read_by(run, spot.procedure, around),
        _ => RegisterSet::empty(),
    })
}

/// The pairs by which a loop reads.
pub(crate) fn read_by(run: &Run<'_>, procedure: usize, around: &Loop) -> RegisterSet {
    let mut pointers = RegisterSet::empty();
    for point in around.iter() {
        let spot = Spot {
            procedure,
            point: *point,
        };
        if let Some(op) = op_at(run, spot)
            && let Some(pointer) = loaded_by(op, &RegisterSet::all())
        {
            pointers = pointers.union(&RegisterSet::of_pointer(pointer));
        }
    }
    pointers
}

/// The registers that no instruction of a loop changes.
fn unwritten(run: &Run<'_>, procedure: usize, around: &Loop) -> RegisterSet {
    let mut kept = RegisterSet::all();
    for point in around.iter() {
        let spot = Spot {
            procedure,
            point: *point,
        };
        if let Some(op) = op_at(run, spot) {
            let changed = written(op);
            for register in REGISTERS {
                if changed.contains(register) {
                    kept = without(&kept, register);
                }
            }
        }
    }
    kept
}

/// Whether a register isn't known behind the instruction at a point.
pub(crate) fn is_open(
    run: &Run<'_>,
    procedure: usize,
    point: CodePoint,
    register: Register,
) -> bool {
    let spot = Spot { procedure, point };
    let Some(op) = op_at(run, spot) else {
        return true;
    };
    match sources(op, &RegisterSet::of(&[register])) {
        Some(from) => !open_at(run, spot, &from, true).is_empty(),
        None => true,
    }
}

/// Whether an instruction of a loop looks at the page of HL or DE, or counts it.
fn tests_page(run: &Run<'_>, procedure: usize, around: &Loop) -> bool {
    around.iter().any(|point| {
        let spot = Spot {
            procedure,
            point: *point,
        };
        matches!(
            op_at(run, spot),
            Some(
                Op::Load(
                    Operand::Register(Register::A),
                    Operand::Register(Register::D | Register::H)
                ) | Op::Bit(_, Operand::Register(Register::D | Register::H))
                    | Op::Increment(Operand::Register(Register::D | Register::H))
                    | Op::Decrement(Operand::Register(Register::D | Register::H))
            )
        )
    })
}

/// Whether a loop is entered with a counter that isn't known.
fn begins_unknown(
    run: &Run<'_>,
    ways: &Ways,
    procedure: usize,
    around: &Loop,
) -> Result<bool, AllocError> {
    let counters = counters_of(run, procedure, around, None);
    for head in &ways.heads(around)? {
        for before in &ways.before(*head)? {
            if around.contains(before) {
                continue;
            }
            for register in REGISTERS {
                if counters.contains(register) && is_open(run, procedure, *before, register) {
                    return Ok(true);
                }
            }
        }
    }
    Ok(false)
}

/// Whether a pair that may be a pointer is among registers.
fn has_pointer(registers: &RegisterSet) -> bool {
    RegisterSet::of(&[Register::H, Register::L]).is_inside(registers)
        || RegisterSet::of(&[Register::D, Register::E]).is_inside(registers)
}

/// The edits that tell an outer loop's states apart, as far as they are new, and those of an inner one by what it doesn't
/// change, where a pointer is left, or all of them.
fn edits_of_outer(
    alloc: Global,
    run: &Run<'_>,
    ways: &Ways,
    procedure: usize,
    around: &Loop,
    innermost: &Loop,
) -> Result<Option<Plan>, AllocError> {
    let target = run.target(procedure);
    let kept = unwritten(run, procedure, innermost);
    let mut plan = Plan::new(alloc);
    let mut is_new = false;
    for point in around.iter() {
        let place = TargetPlace {
            target,
            point: *point,
        };
        if run.configuration.keyed.contains(&place) {
            continue;
        }
        if !innermost.contains(point) || !has_pointer(&kept) {
            plan.key(
                run,
                ways,
                Spot {
                    procedure,
                    point: *point,
                },
            )?;
            is_new = true;
            continue;
        }
        for register in REGISTERS {
            let counted = registers_at(&run.configuration.counted, place);
            if kept.contains(register) && !counted.contains(register) {
                plan.add(Edit::Count(place, register))?;
                is_new = true;
            }
        }
    }
    if is_new {
        Ok(unless_taken_back(run, plan))
    } else {
        Ok(None)
    }
}

/// A loop around one whose counter isn't known where it begins is told apart value by value, so that it becomes known: the
/// inner one would be walked through all of memory else.
fn key_outer(
    alloc: Global,
    run: &Run<'_>,
    ways: &Ways,
    procedure: usize,
    loops: &[Loop],
) -> Result<Option<Plan>, AllocError> {
    let [innermost, outer @ ..] = loops else {
        return Ok(None);
    };
    if !begins_unknown(run, ways, procedure, innermost)? {
        return Ok(None);
    }
    for around in outer {
        if !ways.is_endless(around) {
            return edits_of_outer(alloc, run, ways, procedure, around, innermost);
        }
    }
    Ok(None)
}

/// Whether a loop counts another register down than one in each of its rounds.
fn counts_another(
    run: &Run<'_>,
    ways: &Ways,
    procedure: usize,
    around: &Loop,
    one: Register,
) -> Result<bool, AllocError> {
    for point in around.iter() {
        let spot = Spot {
            procedure,
            point: *point,
        };
        if let Some(register) = counter_at(run, spot)
            && register != one
            && !ways.is_passed_by(around, *point)?
        {
            return Ok(true);
        }
    }
    Ok(false)
}

/// The rounds of a loop with two counters are told apart by the one that isn't counted in each of them: `dec b`, `jr nz` and then
/// `dec c`, `jr nz` may lead to the same address, and make one loop.
fn count_slower(
    alloc: Global,
    run: &Run<'_>,
    ways: &Ways,
    procedure: usize,
    around: &Loop,
) -> Result<Option<Plan>, AllocError> {
    let target = run.target(procedure);
    for point in around.iter() {
        let spot = Spot {
            procedure,
            point: *point,
        };
        if let Some(register) = counter_at(run, spot)
            && register != Register::A
            && !is_told(&run.configuration.counted, target, around, register)
            && ends_by(run, ways, procedure, around, register)
            && ways.is_passed_by(around, *point)?
            && counts_another(run, ways, procedure, around, register)?
        {
            let plan = at_all(alloc, target, around, register, false)?;
            return Ok(unless_taken_back(run, plan));
        }
    }
    Ok(None)
}

/// Counters of loops are told apart, by the rules of version 3: pointers beside the innermost one's counter are known by it.
fn refine_counters(
    alloc: Global,
    run: &Run<'_>,
    ways: &Ways,
    procedure: usize,
    loops: &[Loop],
) -> Result<Option<Plan>, AllocError> {
    let [innermost, outer @ ..] = loops else {
        return Ok(None);
    };
    if run.rules() == Rules::Simple {
        return Ok(None);
    }
    // A loop whose counter is known in each round so far has no way out yet.
    for around in loops {
        if let Some(plan) = count_items(alloc, run, procedure, around)? {
            return Ok(Some(plan));
        }
    }
    for around in loops {
        if let Some(plan) = peel_loop(alloc, run, ways, procedure, around)? {
            return Ok(Some(plan));
        }
    }
    for around in outer {
        if let Some(plan) = count_rounds(alloc, run, ways, procedure, around, innermost)? {
            return Ok(Some(plan));
        }
    }
    if let Some(plan) = count_slower(alloc, run, ways, procedure, innermost)? {
        return Ok(Some(plan));
    }
    key_outer(alloc, run, ways, procedure, loops)
}

/// Refines a loop around a spot: the innermost first, those without an end last, if they are wanted, and counters between.
pub fn refine_loops(
    alloc: Global,
    run: &Run<'_>,
    ways: &Ways,
    spot: Spot,
    with_endless: bool,
) -> Result<Option<Plan>, AllocError> {
    let target = run.target(spot.procedure);
    let loops = ways.loops(spot.point)?;
    if let Some(plan) = refine_counters(alloc, run, ways, spot.procedure, loops.as_slice())? {
        return Ok(Some(plan));
    }
    for around in &loops {
        if !ways.is_endless(around) {
            if let Some(plan) = refine_loop(alloc, run, ways, spot.procedure, around)? {
                return Ok(Some(plan));
            }
        }
    }
    for around in &loops {
        if is_keyed(run, target, around) {
            if let Some(plan) = split_counter(alloc, run, ways, spot.procedure, around)? {
                return Ok(Some(plan));
            }
        }
    }
    for around in &loops {
        if with_endless && ways.is_endless(around) {
            if let Some(plan) = refine_loop(alloc, run, ways, spot.procedure, around)? {
                return Ok(Some(plan));
            }
        }
    }
    Ok(None)
}
