//! The reasons against what an instruction's successors do: each successor by itself, and the lowest of all.

ghost use Rattle.std.specs.Prelude.{◌≡◌, true, find, Some};
ghost use Rattle.gb_successors.specs.Below.gb_abs.Operations.{core_settle};
ghost use Rattle.gb_successors.specs.Below.gb_domain.declared.rules.Rules.TheVariants.{Extended};
ghost use Rattle.gb_ops.specs.Cartridge.{kind_of};
ghost use Rattle.gb_successors.specs.Below.gb_product.Reduced.{product_of};
ghost use Rattle.gb_successors.specs.Refused.{is_unstorable};
ghost use Rattle.gb_successors.specs.Settled.{held_way};
ghost use Rattle.gb_successors.specs.Successors.{product_before, taken_from, not_taken_from, staying_successor, stays, reduced_successor};
ghost use Rattle.gb_rules.specs.Lowest as Lowest;
ghost use Rattle.gb_rules.specs.Lowest.{behind, lowest, lowest_in, applies_alone, applies_to_way, applies_to_taken};
ghost use Rattle.gb_rules.specs.Procedures.{stack_of, program_of, ranges_of};
ghost use Rattle.gb_rules.specs.Rules as Ruled;
ghost use Rattle.gb_rules.specs.Rules.{target_reasons};

use crate::depth::{moves_alone_too_deep, taken_too_deep};
use crate::interrupts::{handles_too_deep, is_dispatch_limited};
use crate::procedures::{
    Called, called_by, calls_too_deep, is_uncallable, is_uncovered, is_unreturnable, program_of,
    ranges_of,
};
use crate::room::Room;
use gb_calls::{Cert, NodeRef, States};
use gb_ops::op::Row;
use gb_successors::refused::{is_unknown, is_unstorable, meets_closed, meets_oam_transfer};
use gb_successors::stacks::Stack;
use gb_successors::successor::{Successor, staying_successor, taken_successor};
use gb_successors::successors::{
    has_condition, may_stay, memory_before, other_side_successor, settle_way, side_successor,
};
use gb_successors::{
    Abs, AbsWrite, Core, Program, Reason, Relations, Rom, Rules, Setting, lies_in_high_ram,
    not_taken_side, read_in, reduce, settle, taken_side,
};

/// A node's instruction, whose successors are judged.
#[derive(Clone, Copy)]
pub(crate) struct Site<'s> {
    pub rom: &'s Rom<'s>,
    pub cert: &'s Cert<'s>,
    /// From the node with this number on, nodes that cover are looked for.
    pub near: u32,
    /// What is known of the stack of the node's procedure.
    pub stack: &'s Stack,
    pub node: &'s NodeRef<'s>,
    /// The node's state.
    pub state: &'s Abs,
    pub row: &'s Row,
}

/// The lower one of two reasons, where there are some.
fn lower(one: Option<Reason>, other: Option<Reason>) -> Option<Reason>
    ensures { result ≡ Lowest.lower one other }
{
    match (one, other) {
        (None, _) => other,
        (Some(_), None) => one,
        (Some(a), Some(b)) => { if a.number() <= b.number() { one } else { other } }
    }
}

/// The address behind the instruction.
fn behind(site: &Site<'_>) -> u16
    ensures { result ≡ behind site.now.node.now.address site.now.row.now }
{
    site.node.address().wrapping_add(u16::from(site.row.length))
}

/// Whether an OAM transfer may close a byte of an instruction of so many bytes.
#[tactic(auto, unfolding(crate::specs::Rules::is_code_limited))]
fn is_code_limited(core: &Core, address: u16, length: u8) -> bool
    ensures { result ≡ Ruled.is_code_limited core.now address length }
{
    core.bound != 0 && !lies_in_high_ram(address, length)
}

/// Whether a successor may store where the procedure may not. What that may write is read only where something is stored.
#[tactic(auto, unfolding(gb_successors::specs::Refused::is_unstorable))]
fn stores_outside(
    rom: &Rom<'_>,
    cert: &Cert<'_>,
    procedure: u16,
    setting: Setting,
    write: AbsWrite,
) -> bool
    ensures { result ≡ is_unstorable setting (kind_of rom.now) cert.now.region (ranges_of cert.now procedure) write }
{
    match write {
        AbsWrite::Nothing | AbsWrite::Push { .. } => false,
        AbsWrite::Byte(_, _) | AbsWrite::Word(_, _, _) => {
            let ranges = ranges_of(cert, procedure);
            is_unstorable(setting, rom.kind(), cert.region(), ranges.as_slice(), write)
        }
    }
}

/// The lowest reason against where a successor goes on.
#[tactic(auto, unfolding(crate::specs::Lowest::applies_to_way, crate::specs::Procedures::stack_of, crate::specs::Procedures::setting_of))]
fn reason_of_target(
    site: &Site<'_>,
    program: &Program<'_>,
    successor: &Successor<'_>,
    called: Called,
    room: &mut Room,
) -> Option<Reason>
    requires stack { site.now.stack.now ≡ stack_of site.now.cert.now site.now.node.now.procedure }
    requires program { program.now ≡ program_of site.now.rom.now site.now.cert.now }
    requires called { called ≡ Ruled.called_to program.now site.now.cert.now site.now.stack.now site.now.node.now.procedure successor.now.target successor.now.next successor.now.state }
    ensures { result ≡ find (applies_to_way site.now.rom.now site.now.cert.now site.now.node.now site.now.row.now successor.now) target_reasons }
{
    let (cert, stack) = (site.cert, *site.stack);
    let procedure = site.node.procedure();
    if is_unknown(successor.target) {
        Some(Reason::JumpHl)
    } else if is_uncovered(
        program, cert, site.near, stack, procedure, successor, called, room,
    ) {
        Some(Reason::Uncovered)
    } else if is_uncallable(program, cert, stack, procedure, successor, called) {
        Some(Reason::Callee)
    } else if is_unreturnable(
        program,
        stack.setting.rules,
        cert,
        procedure,
        successor,
        room,
    ) {
        Some(Reason::Return)
    } else {
        None
    }
}

/// The lowest reason against one successor.
#[tactic(auto, unfolding(crate::specs::Lowest::lowest, crate::specs::Lowest::applies_to_way, crate::specs::Procedures::stack_of, crate::specs::Procedures::setting_of))]
fn reason_of_way(site: &Site<'_>, successor: &Successor<'_>, room: &mut Room) -> Option<Reason>
    requires stack { site.now.stack.now ≡ stack_of site.now.cert.now site.now.node.now.procedure }
    requires state { site.now.state.now ≡ site.now.node.now.state }
    ensures { result ≡ lowest (applies_to_way site.now.rom.now site.now.cert.now site.now.node.now site.now.row.now successor.now) }
{
    let (rom, cert, stack) = (site.rom, site.cert, *site.stack);
    let (core, row) = (site.state.core(), site.row);
    let procedure = site.node.procedure();
    let program = &program_of(rom, cert);
    let called = called_by(program, cert, site.near, stack, procedure, successor, room);
    if calls_too_deep(program, cert, stack, procedure, successor, called) {
        Some(Reason::Depth)
    } else if stores_outside(rom, cert, procedure, stack.setting, successor.write) {
        Some(Reason::Store)
    } else if meets_closed(rom, core, successor) {
        Some(Reason::CartridgeRam)
    } else if is_code_limited(core, site.node.address(), row.length)
        || meets_oam_transfer(cert.region(), core, successor)
    {
        Some(Reason::OamTransfer)
    } else {
        reason_of_target(site, program, successor, called, room)
    }
}

/// The lowest reason against the successor where the instruction is taken.
#[inline(always)]
#[tactic(auto, unfolding(crate::specs::Lowest::lowest, crate::specs::Lowest::applies_to_taken, crate::specs::Procedures::stack_of, crate::specs::Procedures::setting_of))]
fn reason_of_taken(site: &Site<'_>, successor: &Successor<'_>, room: &mut Room) -> Option<Reason>
    requires stack { site.now.stack.now ≡ stack_of site.now.cert.now site.now.node.now.procedure }
    requires state { site.now.state.now ≡ site.now.node.now.state }
    ensures { result ≡ lowest (applies_to_taken site.now.rom.now site.now.cert.now site.now.node.now site.now.row.now successor.now) }
{
    if taken_too_deep(
        site.stack.setting.rules,
        site.stack.need,
        site.node,
        site.state,
        site.row.op,
    ) {
        Some(Reason::Depth)
    } else {
        reason_of_way(site, successor, room)
    }
}

/// The lowest reason against a successor that is settled first: where nothing is meant by it there is none.
#[inline(always)]
fn reason_of_possible(
    site: &Site<'_>,
    successor: &mut Successor<'_>,
    room: &mut Room,
) -> Option<Reason>
    requires stack { site.now.stack.now ≡ stack_of site.now.cert.now site.now.node.now.procedure }
    requires state { site.now.state.now ≡ site.now.node.now.state }
    ensures { result ≡ lowest_in (applies_to_taken site.now.rom.now site.now.cert.now site.now.node.now site.now.row.now) (held_way site.now.stack.now.setting.rules site.now.stack.now (reduced_successor site.now.stack.now.setting.rules site.now.stack.now.setting.entered successor.old)) }
{
    if settle_way(site.stack, successor) {
        reason_of_taken(site, successor, room)
    } else {
        None
    }
}

/// The lowest reason where an instruction with a condition is taken, if it may be; what is known before it is given.
#[inline(never)]
fn reason_on_side(
    site: &Site<'_>,
    core: &Core,
    relations: &Relations,
    room: &mut Room,
) -> Option<Reason>
    requires stack { site.now.stack.now ≡ stack_of site.now.cert.now site.now.node.now.procedure }
    requires state { site.now.state.now ≡ site.now.node.now.state }
    ensures { result ≡ lowest_in (applies_to_taken site.now.rom.now site.now.cert.now site.now.node.now site.now.row.now) (taken_from site.now.stack.now (program_of site.now.rom.now site.now.cert.now) site.now.rom.now site.now.row.now (behind site.now.node.now.address site.now.row.now) site.now.state.now (product_of core.now relations.now)) }
{
    let (rom, stack, row, state) = (site.rom, site.stack, site.row, site.state);
    let program = program_of(site.rom, site.cert);
    let memory = memory_before(site.stack, &program, state, core, relations);
    let Some(side) = taken_side(row.op, memory, core, relations) else {
        return None;
    };
    let next = behind(site);
    reason_of_possible(
        site,
        &mut side_successor(*stack, &program, rom, *row, next, state, &side),
        room,
    )
}

/// The lowest reason where the instruction is taken, if it may be. Where there is no condition nothing is cut, so that nothing is
/// copied.
#[inline(always)]
#[tactic(auto, unfolding(gb_successors::specs::Successors::settled_way))]
fn reason_if_taken(
    site: &Site<'_>,
    core: &Core,
    relations: &Relations,
    room: &mut Room,
) -> Option<Reason>
    requires stack { site.now.stack.now ≡ stack_of site.now.cert.now site.now.node.now.procedure }
    requires state { site.now.state.now ≡ site.now.node.now.state }
    ensures { result ≡ lowest_in (applies_to_taken site.now.rom.now site.now.cert.now site.now.node.now site.now.row.now) (taken_from site.now.stack.now (program_of site.now.rom.now site.now.cert.now) site.now.rom.now site.now.row.now (behind site.now.node.now.address site.now.row.now) site.now.state.now (product_of core.now relations.now)) }
{
    let (rom, stack, row, state) = (site.rom, site.stack, site.row, site.state);
    if has_condition(row.op) {
        return reason_on_side(site, core, relations, room);
    }
    let next = behind(site);
    let program = program_of(site.rom, site.cert);
    reason_of_possible(
        site,
        &mut taken_successor(
            stack, &program, rom, row, next, state, core, relations, &None, None,
        ),
        room,
    )
}

/// The lowest reason where it isn't taken, if it may not be.
#[inline(never)]
#[tactic(auto, unfolding(gb_successors::specs::Successors::settled_way))]
fn reason_on_other_side(
    site: &Site<'_>,
    core: &Core,
    relations: &Relations,
    room: &mut Room,
) -> Option<Reason>
    requires stack { site.now.stack.now ≡ stack_of site.now.cert.now site.now.node.now.procedure }
    requires state { site.now.state.now ≡ site.now.node.now.state }
    ensures { result ≡ lowest_in (applies_to_way site.now.rom.now site.now.cert.now site.now.node.now site.now.row.now) (not_taken_from site.now.stack.now (program_of site.now.rom.now site.now.cert.now) site.now.row.now (behind site.now.node.now.address site.now.row.now) site.now.state.now (product_of core.now relations.now)) }
{
    let (stack, row, state) = (*site.stack, *site.row, site.state);
    let program = program_of(site.rom, site.cert);
    let memory = memory_before(site.stack, &program, state, core, relations);
    let Some(side) = not_taken_side(row.op, memory, core, relations) else {
        return None;
    };
    let next = behind(site);
    let mut successor = other_side_successor(stack, site.rom, row, next, state, &side);
    if settle_way(&stack, &mut successor) {
        reason_of_way(site, &successor, room)
    } else {
        None
    }
}

/// The lowest reason against the side that isn't taken; without a condition there is no such side.
#[inline(always)]
fn reason_if_not_taken(
    site: &Site<'_>,
    core: &Core,
    relations: &Relations,
    room: &mut Room,
) -> Option<Reason>
    requires stack { site.now.stack.now ≡ stack_of site.now.cert.now site.now.node.now.procedure }
    requires state { site.now.state.now ≡ site.now.node.now.state }
    ensures { result ≡ lowest_in (applies_to_way site.now.rom.now site.now.cert.now site.now.node.now site.now.row.now) (not_taken_from site.now.stack.now (program_of site.now.rom.now site.now.cert.now) site.now.row.now (behind site.now.node.now.address site.now.row.now) site.now.state.now (product_of core.now relations.now)) }
{
    if has_condition(site.row.op) {
        reason_on_other_side(site, core, relations, room)
    } else {
        None
    }
}

/// The lowest reason where the processor stays on the instruction.
#[inline(never)]
fn reason_on_halt(site: &Site<'_>, room: &mut Room) -> Option<Reason>
    requires stack { site.now.stack.now ≡ stack_of site.now.cert.now site.now.node.now.procedure }
    requires state { site.now.state.now ≡ site.now.node.now.state }
    ensures { result ≡ lowest (applies_to_way site.now.rom.now site.now.cert.now site.now.node.now site.now.row.now (staying_successor site.now.node.now.address site.now.state.now)) }
{
    let successor = staying_successor(site.node.address(), site.state);
    reason_of_way(site, &successor, room)
}

/// The lowest reason against staying on HALT, if the instruction may stay.
#[inline(always)]
#[tactic(auto, unfolding(gb_successors::specs::Successors::stays))]
fn reason_if_staying(site: &Site<'_>, room: &mut Room) -> Option<Reason>
    requires stack { site.now.stack.now ≡ stack_of site.now.cert.now site.now.node.now.procedure }
    requires state { site.now.state.now ≡ site.now.node.now.state }
    ensures { result ≡ lowest_in (applies_to_way site.now.rom.now site.now.cert.now site.now.node.now site.now.row.now) (stays site.now.row.now site.now.node.now.address site.now.state.now) }
{
    if may_stay(site.row.op, site.state.core()) {
        reason_on_halt(site, room)
    } else {
        None
    }
}

/// The lowest reason that isn't one successor's, where something is meant before the instruction.
#[inline(always)]
#[tactic(auto, unfolding(crate::specs::Lowest::lowest, crate::specs::Lowest::applies_alone, crate::specs::Procedures::stack_of, crate::specs::Procedures::setting_of))]
fn reason_alone(site: &Site<'_>) -> Option<Reason>
    requires stack { site.now.stack.now ≡ stack_of site.now.cert.now site.now.node.now.procedure }
    requires state { site.now.state.now ≡ site.now.node.now.state }
    requires possible { Ruled.is_possible site.now.rom.now site.now.cert.now site.now.node.now ≡ true }
    ensures { result ≡ lowest (applies_alone site.now.rom.now site.now.cert.now site.now.node.now site.now.row.now) }
{
    let (stack, node, state) = (*site.stack, site.node, site.state);
    if moves_alone_too_deep(stack.setting.rules, stack.need, node, state, site.row.op)
        || handles_too_deep(
            &program_of(site.rom, site.cert),
            site.cert,
            stack,
            node,
            state,
        )
    {
        Some(Reason::Depth)
    } else if is_dispatch_limited(site.cert.region(), node, state.core()) {
        Some(Reason::OamTransfer)
    } else {
        None
    }
}

/// The lowest reason against the successors of an instruction; what is known before it is given.
#[inline(always)]
#[tactic(auto, using(crate::proofs::LowestLaws::lowest_of_ways))]
fn reason_of_each(
    site: &Site<'_>,
    core: &Core,
    relations: &Relations,
    room: &mut Room,
) -> Option<Reason>
    requires stack { site.now.stack.now ≡ stack_of site.now.cert.now site.now.node.now.procedure }
    requires state { site.now.state.now ≡ site.now.node.now.state }
    requires before { Some (product_of core.now relations.now) ≡ product_before (program_of site.now.rom.now site.now.cert.now) site.now.stack.now.setting.rules site.now.stack.now.setting.entered site.now.state.now }
    ensures { result ≡ lowest (Ruled.applies_to_row site.now.rom.now site.now.cert.now site.now.node.now site.now.row.now) }
{
    let alone = reason_alone(site);
    let taken = reason_if_taken(site, core, relations, room);
    let not_taken = reason_if_not_taken(site, core, relations, room);
    let staying = reason_if_staying(site, room);
    lower(lower(lower(alone, taken), not_taken), staying)
}

/// The lowest reason against the successors by the rules of version 3: what is known before the instruction is reduced first.
#[inline(never)]
fn reason_of_reduced(site: &Site<'_>, core: &Core, room: &mut Room) -> Option<Reason>
    requires stack { site.now.stack.now ≡ stack_of site.now.cert.now site.now.node.now.procedure }
    requires state { site.now.state.now ≡ site.now.node.now.state }
    requires rules { site.now.stack.now.setting.rules ≡ Extended }
    requires core { core.now ≡ core_settle site.now.state.now.core }
    ensures { result ≡ lowest (Ruled.applies_to_row site.now.rom.now site.now.cert.now site.now.node.now site.now.row.now) }
{
    let mut core = *core;
    let mut relations = *site.state.relations();
    let entered = &site.stack.setting.entered;
    let program = program_of(site.rom, site.cert);
    let read = read_in(&program, &States::of(site.state), &relations.pairs);
    if reduce(Rules::Extended, entered, &read, &mut core, &mut relations) {
        reason_of_each(site, &core, &relations, room)
    } else {
        None
    }
}

/// The lowest reason against the successors of a node's instruction, from its core, settled.
fn reason_of_settled(site: &Site<'_>, core: &Core, room: &mut Room) -> Option<Reason>
    requires stack { site.now.stack.now ≡ stack_of site.now.cert.now site.now.node.now.procedure }
    requires state { site.now.state.now ≡ site.now.node.now.state }
    requires core { core.now ≡ core_settle site.now.state.now.core }
    ensures { result ≡ lowest (Ruled.applies_to_row site.now.rom.now site.now.cert.now site.now.node.now site.now.row.now) }
{
    match site.stack.setting.rules {
        Rules::Simple => {
            let relations = site.state.relations();
            reason_of_each(site, core, relations, room)
        }
        Rules::Extended => reason_of_reduced(site, core, room),
    }
}

/// The lowest reason after EI, where interrupts become on.
#[inline(never)]
fn reason_behind_enabling(site: &Site<'_>, room: &mut Room) -> Option<Reason>
    requires stack { site.now.stack.now ≡ stack_of site.now.cert.now site.now.node.now.procedure }
    requires state { site.now.state.now ≡ site.now.node.now.state }
    ensures { result ≡ lowest (Ruled.applies_to_row site.now.rom.now site.now.cert.now site.now.node.now site.now.row.now) }
{
    let core = settle(site.state.core());
    reason_of_settled(site, &core, room)
}

/// The lowest reason against the successors of a node's instruction. Where no interrupts become on, its core is settled.
pub(crate) fn reason_of_ways(site: &Site<'_>, room: &mut Room) -> Option<Reason>
    requires stack { site.now.stack.now ≡ stack_of site.now.cert.now site.now.node.now.procedure }
    requires state { site.now.state.now ≡ site.now.node.now.state }
    ensures { result ≡ lowest (Ruled.applies_to_row site.now.rom.now site.now.cert.now site.now.node.now site.now.row.now) }
{
    let core = site.state.core();
    if core.ime.pending {
        reason_behind_enabling(site, room)
    } else {
        reason_of_settled(site, core, room)
    }
}
