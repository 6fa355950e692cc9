//! What a node asks where interrupts may come.

ghost use Rattle.std.specs.Prelude.{◌≡◌, ◌<◌, ◌&&◌, true, false, length, Option, None, MatchResult, OnOk};
ghost use Rattle.gb_successors.specs.Below.gb_abs.declared.reason.Reason.TheVariants.{Interrupt};
ghost use Rattle.gb_calls.specs.Interrupts.{may_come, handler_of};
ghost use Rattle.gb_successors.specs.Refused as Refused;
ghost use Rattle.gb_rules.specs.Procedures.{stack_of};
ghost use Rattle.gb_rules.specs.Rules as Ruled;
ghost use Rattle.gb_rules.specs.Safety.{IsWhollySafeAt};

use crate::depth::is_deep;
use crate::procedures::{Call, is_call_uncovered, is_outside_of, is_over, program_of, stack_of};
use crate::room::Room;
use gb_calls::interrupts::{handler, left_by_dispatch, may_come};
use gb_calls::{Cert, NodeRef};
use gb_ops::machine::Region;
use gb_successors::refused::is_stack_limited;
use gb_successors::stacks::Stack;
use gb_successors::{Abs, Core, Program, Reason, Rom, Rules, Setting, holds_bytes};

/// Whether the bytes that a dispatch leaves are too many, or those that wait and the handler's need are.
fn is_dispatch_deep(
    setting: Setting,
    cert: &Cert<'_>,
    need: u16,
    state: &Abs,
    handler: Option<u16>,
) -> bool
    ensures { result ≡ Ruled.is_dispatch_deep setting cert.now need state.now handler }
{
    let held = state.items().len();
    match setting.rules {
        Rules::Simple => is_over(Rules::Simple, cert, need, held, handler),
        Rules::Extended => {
            state.core().stack_set
                && (is_deep(Rules::Extended, need, held + 2)
                    || is_over(Rules::Extended, cert, need, held + 2, handler))
        }
    }
}

/// Whether interrupt `i`, 0 to 4, may come, and its dispatch makes the stack too deep.
fn is_deep_at(
    program: &Program<'_>,
    cert: &Cert<'_>,
    setting: Setting,
    need: u16,
    address: u16,
    state: &Abs,
    i: u8,
) -> bool
    requires { i < 5 }
    ensures { result ≡ (may_come i state.now.core && Ruled.is_dispatch_deep setting cert.now need state.now (handler_of program.now cert.now setting i address state.now)) }
{
    may_come(i, state.core())
        && is_dispatch_deep(
            setting,
            cert,
            need,
            state,
            handler(program, cert, setting, i, address, state),
        )
}

/// Whether an interrupt may come whose dispatch makes the stack too deep.
#[tactic(auto, unfolding(crate::specs::Rules::handles_too_deep, crate::specs::Procedures::stack_of))]
pub(crate) fn handles_too_deep(
    program: &Program<'_>,
    cert: &Cert<'_>,
    stack: Stack,
    node: &NodeRef<'_>,
    state: &Abs,
) -> bool
    requires stack { stack ≡ stack_of cert.now node.now.procedure }
    requires state { state.now ≡ node.now.state }
    ensures { result ≡ Ruled.handles_too_deep program.now cert.now node.now }
{
    if !state.core().ime.on {
        return false;
    }
    let (setting, need) = (stack.setting, stack.need);
    let address = node.address();
    is_deep_at(program, cert, setting, need, address, state, 0)
        || is_deep_at(program, cert, setting, need, address, state, 1)
        || is_deep_at(program, cert, setting, need, address, state, 2)
        || is_deep_at(program, cert, setting, need, address, state, 3)
        || is_deep_at(program, cert, setting, need, address, state, 4)
}

/// Whether interrupt `i`, 0 to 4, may come while an OAM transfer may close the stack region.
fn is_limited_at(region: Region, core: &Core, i: u8) -> bool
    requires { i < 5 }
    ensures { result ≡ (may_come i core.now && Refused.is_stack_limited region core.now) }
{
    may_come(i, core) && is_stack_limited(region, core)
}

/// Whether a dispatch may push while an OAM transfer closes the stack region.
#[tactic(auto, unfolding(crate::specs::Rules::is_dispatch_limited))]
pub(crate) fn is_dispatch_limited(region: Region, node: &NodeRef<'_>, core: &Core) -> bool
    requires { core.now ≡ node.now.state.core }
    ensures { result ≡ Ruled.is_dispatch_limited region node.now }
{
    if !core.ime.on {
        return false;
    }
    is_limited_at(region, core, 0)
        || is_limited_at(region, core, 1)
        || is_limited_at(region, core, 2)
        || is_limited_at(region, core, 3)
        || is_limited_at(region, core, 4)
}

/// The vector of interrupt 0; those of the others follow it, 8 bytes apart (Memory map: jump vectors).
const FIRST_VECTOR: u16 = 0x40;

/// Whether a dispatch from these states would leave more bytes on the stack than a state can hold, so that no node stands
/// for them. That is asked where nothing is meant too, as for each interrupt that may come.
fn is_dispatch_overfull(rules: Rules, state: &Abs) -> bool
    ensures { result ≡ Ruled.is_dispatch_overfull rules state.now }
{
    match rules {
        Rules::Simple => false,
        Rules::Extended => state.items().len() + 2 > rules.item_room(),
    }
}

/// Whether a handler can't be entered from a node, or what its procedure goes on with behind it isn't covered there; where an
/// interrupt is handled in the procedure itself, whether that isn't covered at its vector.
fn is_unhandled(
    program: &Program<'_>,
    cert: &Cert<'_>,
    near: u32,
    setting: Setting,
    node: &NodeRef<'_>,
    state: &Abs,
    i: u8,
    handler: Option<u16>,
    room: &mut Room,
) -> bool
    requires small { i < 5 }
    requires state { state.now ≡ node.now.state }
    ensures { result ≡ Ruled.is_unhandled program.now setting cert.now node.now i handler }
{
    let procedure = node.procedure();
    let call = Call {
        address: FIRST_VECTOR + 8 * u16::from(i),
        back: node.address(),
    };
    !state.core().stack_set
        || is_outside_of(cert, setting, procedure, handler)
        || (is_dispatch_overfull(setting.rules, state)
            || is_call_uncovered(
                program,
                setting.rules,
                cert,
                near,
                procedure,
                call,
                &left_by_dispatch(setting.rules, node.address(), state),
                handler,
                &mut room.exit,
                &mut room.other,
            ))
}

/// Whether interrupt `i`, 0 to 4, may come at a node and isn't provided for.
fn is_unhandled_at(
    program: &Program<'_>,
    cert: &Cert<'_>,
    near: u32,
    setting: Setting,
    node: &NodeRef<'_>,
    state: &Abs,
    i: u8,
    room: &mut Room,
) -> bool
    requires small { i < 5 }
    requires state { state.now ≡ node.now.state }
    ensures { result ≡ (may_come i node.now.state.core && Ruled.is_unhandled program.now setting cert.now node.now i (handler_of program.now cert.now setting i node.now.address node.now.state)) }
{
    may_come(i, state.core())
        && is_unhandled(
            program,
            cert,
            near,
            setting,
            node,
            state,
            i,
            handler(program, cert, setting, i, node.address(), state),
            room,
        )
}

/// Whether an interrupt may come at a node that isn't provided for (own rules): the stack isn't set, no procedure may
/// be entered at its vector, or what its procedure goes on with behind the handler isn't covered where it was left. The
/// node's state is given, so that it is read from the certificate once, and what is known of its procedure's stack. Nodes that
/// cover are looked for from the node with the number `near` on.
#[tactic(auto, unfolding(crate::specs::Rules::lacks_handler, crate::specs::Procedures::stack_of))]
pub fn lacks_handler(
    program: &Program<'_>,
    cert: &Cert<'_>,
    near: u32,
    stack: Stack,
    node: &NodeRef<'_>,
    state: &Abs,
    room: &mut Room,
) -> bool
    requires stack { stack ≡ stack_of cert.now node.now.procedure }
    requires state { state.now ≡ node.now.state }
    ensures { result ≡ Ruled.lacks_handler program.now cert.now node.now }
{
    if !state.core().ime.on {
        return false;
    }
    let setting = stack.setting;
    // Behind a handler mostly the node that it came at covers: the one behind `near` is asked first.
    let near = near.saturating_sub(1);
    is_unhandled_at(program, cert, near, setting, node, state, 0, room)
        || is_unhandled_at(program, cert, near, setting, node, state, 1, room)
        || is_unhandled_at(program, cert, near, setting, node, state, 2, room)
        || is_unhandled_at(program, cert, near, setting, node, state, 3, room)
        || is_unhandled_at(program, cert, near, setting, node, state, 4, room)
}

/// Checks that each interrupt that may come at the node with a number is provided for.
///
/// # Errors
///
/// `Reason::Interrupt`, where one isn't (own rules).
pub fn check_irqs(rom: &Rom<'_>, cert: &Cert<'_>, i: u32) -> Result<(), Reason>
    requires { i < length cert.now.nodes }
    // Ok exactly where each interrupt is provided for.
    ensures exact { MatchResult result (λ _. Ruled.lacks_handler_at rom.now cert.now i ≡ false) (λ r. (Ruled.lacks_handler_at rom.now cert.now i ≡ true) × (r ≡ Interrupt)) }
    // Where no other reason is against the node either, each event, a dispatch among them, from a state of
    // the node, has no fault, fetches certified places, leaves a state that some node of the procedure
    // means, or enters another one, or returns, and changes nothing that the procedure keeps.
    ensures safe { Ruled.reason_at rom.now cert.now i ≡ None → OnOk result (IsWhollySafeAt rom.now cert.now i) }
{
    // Behind the promise stand that a cartridge holds bytes, and the rules of certificates.
    holds_bytes(rom);
    let _region = cert.region();
    provided_at(rom, cert, i)
}

fn provided_at(rom: &Rom<'_>, cert: &Cert<'_>, i: u32) -> Result<(), Reason>
    requires { i < length cert.now.nodes }
    ensures { MatchResult result (λ _. Ruled.lacks_handler_at rom.now cert.now i ≡ false) (λ r. (Ruled.lacks_handler_at rom.now cert.now i ≡ true) × (r ≡ Interrupt)) }
{
    let node = cert.node(i);
    let state = node.state();
    let stack = stack_of(cert, node.procedure());
    let mut room = Room::new(*state.core());
    let program = program_of(rom, cert);
    if lacks_handler(&program, cert, i, stack, &node, &state, &mut room) {
        Err(Reason::Interrupt)
    } else {
        Ok(())
    }
}
