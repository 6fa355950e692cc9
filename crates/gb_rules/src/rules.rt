//! The rules of one node.

ghost use Rattle.std.specs.Prelude.{◌≡◌, ◌<◌, length, find, Option, Some, None, MatchResult, OnOk};
ghost use Rattle.gb_rules.specs.Procedures.{stack_of};
ghost use Rattle.gb_rules.specs.Rules as Ruled;
ghost use Rattle.gb_rules.specs.Rules.{row_reasons, reason_at};
ghost use Rattle.gb_rules.specs.Safety.{IsSafeAt};

use crate::procedures::{program_of, stack_of};
use crate::room::Room;
use crate::stacks::breaks_stack;
use crate::ways::{Site, reason_of_ways};
use gb_calls::{Cert, NodeRef};
use gb_ops::decode::decode;
use gb_ops::op::{Op, Row};
use gb_successors::stacks::Stack;
use gb_successors::{
    Abs, Program, Reason, Rom, area_end, holds_bytes, is_other_bank, known_bank, known_byte,
    known_bytes_from, leaves_area,
};

fn is_stop(op: Op) -> bool
    ensures { result ≡ Ruled.is_stop op }
{
    matches!(op, Op::Stop)
}

fn is_halt(op: Op) -> bool
    ensures { result ≡ Ruled.is_halt op }
{
    matches!(op, Op::Halt)
}

/// Whether the byte behind an address is known to be NOP's, in the area that ends there.
pub fn is_nop_behind(
    program: &Program<'_>,
    rom: &Rom<'_>,
    state: &Abs,
    address: u16,
    end: Option<u16>,
) -> bool
    ensures { result ≡ Ruled.is_nop_behind program.now rom.now state.now address end }
{
    let Some(end) = end else { return false };
    if u32::from(address) + 1 >= u32::from(end) {
        return false;
    }
    match known_byte(program, rom, state, address + 1) {
        None => false,
        Some(byte) => byte == 0,
    }
}

/// Whether an instruction is HALT where interrupts may be off, and the byte behind it, which may then
/// be read twice, isn't known to be NOP's (halt: halt bug).
#[tactic(auto, unfolding(crate::specs::Rules::may_read_twice))]
fn may_read_twice(
    program: &Program<'_>,
    rom: &Rom<'_>,
    node: &NodeRef<'_>,
    state: &Abs,
    op: Op,
) -> bool
    requires { state.now ≡ node.now.state }
    ensures { result ≡ Ruled.may_read_twice program.now rom.now node.now op }
{
    let address = node.address();
    is_halt(op)
        && state.core().ime.off
        && !is_nop_behind(program, rom, state, address, area_end(address))
}

/// The lowest reason against a node whose instruction is known.
#[tactic(auto, unfolding(crate::specs::Lowest::lowest, crate::specs::Rules::applies_to_row, crate::specs::Procedures::stack_of, crate::specs::Procedures::setting_of))]
fn reason_of_row(
    rom: &Rom<'_>,
    cert: &Cert<'_>,
    near: u32,
    stack: Stack,
    node: &NodeRef<'_>,
    state: &Abs,
    row: Row,
    room: &mut Room,
) -> Option<Reason>
    requires stack { stack ≡ stack_of cert.now node.now.procedure }
    requires state { state.now ≡ node.now.state }
    ensures { result ≡ find (Ruled.applies_to_row rom.now cert.now node.now row) row_reasons }
{
    if is_stop(row.op) {
        return Some(Reason::Stop);
    }
    let program = program_of(rom, cert);
    if may_read_twice(&program, rom, node, state, row.op) {
        return Some(Reason::Halt);
    }
    if breaks_stack(&program, stack, node, state, row.op) {
        return Some(Reason::Stack);
    }
    let site = Site {
        rom,
        cert,
        near,
        stack: &stack,
        node,
        state,
        row: &row,
    };
    reason_of_ways(&site, room)
}

/// The lowest reason against a node, by the rules of its instruction. Its state is given, so that it is
/// read from the certificate once, and what is known of its procedure's stack. Nodes that cover are looked for from
/// the node with the number `near` on, best its own: they are found quickly a little above it.
#[tactic(auto, unfolding(crate::specs::Rules::reason_of, crate::specs::Rules::applies, crate::specs::Rules::node_bytes))]
pub fn reason_near(
    rom: &Rom<'_>,
    cert: &Cert<'_>,
    near: u32,
    stack: Stack,
    node: &NodeRef<'_>,
    state: &Abs,
    room: &mut Room,
) -> Option<Reason>
    requires stack { stack ≡ stack_of cert.now node.now.procedure }
    requires state { state.now ≡ node.now.state }
    ensures { result ≡ Ruled.reason_of rom.now cert.now node.now }
{
    let address = node.address();
    let program = program_of(rom, cert);
    let opcode = known_byte(&program, rom, state, address);
    if leaves_area(address, opcode, area_end(address)) {
        return Some(Reason::Area);
    }
    if is_other_bank(known_bank(rom, &state.core().ctl, address), node.bank()) {
        return Some(Reason::Bank);
    }
    let Some(bytes) = known_bytes_from(opcode, &program, rom, state, address) else {
        return Some(Reason::Unreadable);
    };
    match decode(&bytes) {
        None => Some(Reason::UndefinedOpcode),
        Some(row) => reason_of_row(rom, cert, near, stack, node, state, row, room),
    }
}

/// The lowest reason against a node, as `reason_near` finds it, searched from the first node on.
pub fn reason_of(rom: &Rom<'_>, cert: &Cert<'_>, node: &NodeRef<'_>, state: &Abs) -> Option<Reason>
    requires { state.now ≡ node.now.state }
    ensures { result ≡ Ruled.reason_of rom.now cert.now node.now }
{
    let stack = stack_of(cert, node.procedure());
    reason_near(
        rom,
        cert,
        0,
        stack,
        node,
        state,
        &mut Room::new(*state.core()),
    )
}

/// Checks the node with a number by the rules of its instruction.
///
/// # Errors
///
/// The lowest reason against the node (own rules).
pub fn check_node(rom: &Rom<'_>, cert: &Cert<'_>, i: u32) -> Result<(), Reason>
    requires { i < length cert.now.nodes }
    // Ok exactly where no reason applies, else the lowest that does.
    ensures exact { MatchResult result (λ _. reason_at rom.now cert.now i ≡ None) (λ r. reason_at rom.now cert.now i ≡ Some r) }
    // Each event but a dispatch, from a state of the node, has no fault, fetches certified places,
    // leaves a state that some node of the procedure means, or calls, or returns, and changes nothing
    // that the procedure keeps.
    ensures safe { OnOk result (IsSafeAt rom.now cert.now i) }
{
    // Behind the promise stand that a cartridge holds bytes, and the rules of certificates.
    holds_bytes(rom);
    let _region = cert.region();
    lowest_reason(rom, cert, i)
}

fn lowest_reason(rom: &Rom<'_>, cert: &Cert<'_>, i: u32) -> Result<(), Reason>
    requires { i < length cert.now.nodes }
    ensures { MatchResult result (λ _. reason_at rom.now cert.now i ≡ None) (λ r. reason_at rom.now cert.now i ≡ Some r) }
{
    let node = cert.node(i);
    let state = node.state();
    let stack = stack_of(cert, node.procedure());
    let mut room = Room::new(*state.core());
    match reason_near(rom, cert, i, stack, &node, &state, &mut room) {
        None => Ok(()),
        Some(reason) => Err(reason),
    }
}
