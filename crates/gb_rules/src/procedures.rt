//! The procedures of a certificate, and what successors ask of them: where they call, where they go on,
//! and whether they may return.

ghost use Rattle.std.specs.Prelude.{◌≡◌, ◌<◌, not, length, slice_get, Option, Some};
ghost use Rattle.gb_successors.specs.Below.gb_domain.Limits as Limits;
ghost use Rattle.gb_successors.specs.Below.gb_product.Covering.{covers};
ghost use Rattle.gb_calls.specs.Calls.{callee_of};
ghost use Rattle.gb_rules.specs.Covered as Covered;
ghost use Rattle.gb_rules.specs.Procedures as Procedures;
ghost use Rattle.gb_rules.specs.Rules as Ruled;

use crate::covered::{covered_near, is_state_covered};
use crate::room::Room;
use arrayvec::ArrayVec;
use gb_calls::callees::{callee, callee_in};
use gb_calls::covering::covers_states;
use gb_calls::ranges::are_ranges_inside;
use gb_calls::resuming::{Return, resume_in};
use gb_calls::{Cert, StateRef, States, Values, bounds_of};
use gb_ops::machine::Kind;
use gb_successors::gb_domain::pairs::{ANY_PAIRS, PairBounds, WordPair};
use gb_successors::stacks::Stack;
use gb_successors::successor::Successor;
use gb_successors::{Abs, Program, Range, Rom, Rules, Setting, Target};

/// What a procedure may write; nothing where there is none with the number.
#[tactic(auto, unfolding(crate::specs::Procedures::ranges_of))]
pub fn ranges_of(cert: &Cert<'_>, procedure: u16) -> ArrayVec<Range, 8>
    ensures { result.items ≡ Procedures.ranges_of cert.now procedure }
{
    if procedure < cert.procedures() {
        cert.procedure(procedure).ranges()
    } else {
        ArrayVec::new()
    }
}

/// The addresses that a procedure names to be kept; none where there is none with the number.
#[tactic(auto, unfolding(crate::specs::Procedures::kept_of))]
pub fn kept_of(cert: &Cert<'_>, procedure: u16) -> ArrayVec<u16, 16>
    ensures { result.items ≡ Procedures.kept_of cert.now procedure }
{
    if procedure < cert.procedures() {
        cert.procedure(procedure).kept()
    } else {
        ArrayVec::new()
    }
}

/// How many bytes a procedure may have on the stack, those of its callees among them; 0 where there is none with the
/// number.
#[tactic(auto, unfolding(crate::specs::Procedures::need_of))]
pub fn need_of(cert: &Cert<'_>, procedure: u16) -> u16
    ensures { result ≡ Procedures.need_of cert.now procedure }
{
    if procedure < cert.procedures() {
        cert.procedure(procedure).need()
    } else {
        0
    }
}

/// How many bytes below its base a procedure puts its stack aside; 0 where there is none with the number.
#[tactic(auto, unfolding(crate::specs::Procedures::mark_of))]
fn mark_of(cert: &Cert<'_>, procedure: u16) -> u8
    ensures { result ≡ Procedures.mark_of cert.now procedure }
{
    if procedure < cert.procedures() {
        cert.procedure(procedure).mark()
    } else {
        0
    }
}

/// The rules of the certificate's version.
pub(crate) fn rules_of(cert: &Cert<'_>) -> Rules
    ensures { result ≡ Limits.rules_of cert.now.version }
{
    Rules::of(cert.version())
}

/// Whether the rules are those of version 4.
fn is_fourth(cert: &Cert<'_>) -> bool
    ensures { result ≡ Procedures.is_fourth cert.now }
{
    cert.version() == 4
}

/// The base that a procedure says; 0 where it says none, or there is none with the number.
fn base_of(cert: &Cert<'_>, procedure: u16) -> u16
    ensures { result ≡ Procedures.base_in (slice_get cert.now.procedures procedure) }
{
    if procedure < cert.procedures() {
        cert.procedure(procedure).base()
    } else {
        0
    }
}

/// The bounds of a node's pairs; any words where there is no node with the number.
fn pairs_at(cert: &Cert<'_>, node: u32) -> PairBounds
    ensures { result ≡ Procedures.pairs_at (slice_get cert.now.nodes node) }
{
    if node >= cert.nodes() {
        return ANY_PAIRS;
    }
    let state = cert.node(node).lent();
    let values = Values {
        registers: state.known_core().registers,
        pairs: state.relations().pairs,
    };
    PairBounds {
        bc: bounds_of(WordPair::Bc, &values),
        de: bounds_of(WordPair::De, &values),
        hl: bounds_of(WordPair::Hl, &values),
    }
}

/// Within which bounds the pairs lie as a procedure is entered: those of its entry node, of which the rules of version 4 know.
#[tactic(auto, unfolding(crate::specs::Procedures::entered_of))]
pub fn entered_of(cert: &Cert<'_>, procedure: u16) -> PairBounds
    ensures { result ≡ Procedures.entered_of cert.now procedure }
{
    if !is_fourth(cert) || procedure >= cert.procedures() {
        return ANY_PAIRS;
    }
    pairs_at(cert, cert.procedure(procedure).entry())
}

/// Where a procedure's states stand.
#[tactic(auto, unfolding(crate::specs::Procedures::setting_of))]
pub fn setting_of(cert: &Cert<'_>, procedure: u16) -> Setting
    ensures { result ≡ Procedures.setting_of cert.now procedure }
{
    Setting {
        rules: rules_of(cert),
        is_whole: is_fourth(cert),
        is_main: procedure == 0,
        base: base_of(cert, procedure),
        entered: entered_of(cert, procedure),
    }
}

/// What a certificate's states may speak of beside themselves: the cartridge's controller and the facts, in versions 1 to 3 nothing.
#[tactic(auto, unfolding(crate::specs::Procedures::program_of))]
pub fn program_of<'c>(rom: &Rom<'_>, cert: &'c Cert<'_>) -> Program<'c>
    ensures { result ≡ Procedures.program_of rom.now cert.now }
{
    Program {
        is_whole: is_fourth(cert),
        kind: if is_fourth(cert) {
            rom.kind()
        } else {
            Kind::Rom
        },
        facts: cert.facts(),
    }
}

/// Where a procedure's states stand, and how much it may have on the stack.
#[tactic(auto, unfolding(crate::specs::Procedures::stack_of))]
pub fn stack_of(cert: &Cert<'_>, procedure: u16) -> Stack
    ensures { result ≡ Procedures.stack_of cert.now procedure }
{
    Stack {
        setting: setting_of(cert, procedure),
        region: cert.region(),
        need: need_of(cert, procedure),
        main_need: need_of(cert, 0),
        mark: mark_of(cert, procedure),
    }
}

/// How many bytes a node's states hold.
fn items_of(cert: &Cert<'_>, node: u32) -> u8
    ensures { result ≡ Procedures.items_in (slice_get cert.now.nodes node) }
{
    if node < cert.nodes() {
        cert.node(node).lent().item_count()
    } else {
        0
    }
}

/// How many of its caller's bytes a procedure takes over: those of its entry node.
#[tactic(auto, unfolding(crate::specs::Procedures::taken_by))]
pub fn taken_by(cert: &Cert<'_>, procedure: u16) -> u8
    ensures { result ≡ Procedures.taken_by cert.now procedure }
{
    if procedure < cert.procedures() {
        items_of(cert, cert.procedure(procedure).entry())
    } else {
        0
    }
}

/// What a procedure returns with, if it returns, in the certificate's bytes.
#[tactic(auto, unfolding(crate::specs::Procedures::exit_of))]
fn lent_exit_of<'a>(cert: &Cert<'a>, procedure: u16) -> Option<StateRef<'a>>
    ensures { result ≡ Procedures.exit_of cert.now procedure }
{
    if procedure < cert.procedures() {
        cert.procedure(procedure).lent_exit()
    } else {
        None
    }
}

/// What a procedure returns with, if it returns.
pub fn exit_of(cert: &Cert<'_>, procedure: u16) -> Option<Abs>
    ensures { result ≡ Procedures.exit_of cert.now procedure }
{
    Some(lent_exit_of(cert, procedure)?.state())
}

// ---- callees

// What few instructions ask for is kept out of line, so that states are cleared and copied only there.

/// The procedure that is called at an address.
#[inline(never)]
fn callee_from(
    program: &Program<'_>,
    cert: &Cert<'_>,
    setting: Setting,
    address: u16,
    successor: &Successor<'_>,
) -> Option<u16>
    ensures { result ≡ callee_of program.now cert.now setting address successor.now.state }
{
    callee(program, cert, setting, address, &successor.state())
}

/// The procedure that a successor calls.
#[tactic(auto, unfolding(crate::specs::Rules::callee_at))]
pub fn callee_at(
    program: &Program<'_>,
    cert: &Cert<'_>,
    setting: Setting,
    successor: &Successor<'_>,
) -> Option<u16>
    ensures { result ≡ Ruled.callee_at program.now cert.now setting successor.now }
{
    match successor.target {
        Target::Call(address) => callee_from(program, cert, setting, address, successor),
        Target::At(_) | Target::Main(_) | Target::Return | Target::Unknown | Target::Lost => None,
    }
}

// ---- depth

/// The bytes of a caller that wait below a callee.
fn waiting_below(rules: Rules, cert: &Cert<'_>, held: usize, callee: u16) -> usize
    requires { held < 65536 }
    ensures { result ≡ Ruled.waiting_below rules cert.now held callee }
{
    match rules {
        Rules::Simple => held + 2,
        Rules::Extended => held.saturating_sub(usize::from(taken_by(cert, callee))),
    }
}

/// Whether the bytes that wait and the callee's need are more than the need.
pub(crate) fn is_over(
    rules: Rules,
    cert: &Cert<'_>,
    need: u16,
    held: usize,
    callee: Option<u16>,
) -> bool
    requires { held < 65536 }
    ensures { result ≡ Ruled.is_over rules cert.now need held callee }
{
    match callee {
        None => false,
        Some(callee) => {
            let waiting = waiting_below(rules, cert, held, callee);
            usize::from(need) < waiting + usize::from(need_of(cert, callee))
        }
    }
}

// ---- covering

/// Whether more bytes are on the stack than a state can hold.
#[tactic(auto, unfolding(crate::specs::Opened::item_room))]
fn is_overfull(state: &Abs) -> bool
    ensures { result ≡ Ruled.is_overfull state.now }
{
    Rules::Extended.item_room() < state.items().len()
}

/// Whether no node stands for what the caller goes on with when the callee returns by this exit. The exit's states and those
/// that the caller goes on with are written in the place of others.
fn is_return_uncovered(
    program: &Program<'_>,
    rules: Rules,
    cert: &Cert<'_>,
    near: u32,
    procedure: u16,
    back: u16,
    state: &Abs,
    callee: u16,
    exit: &Abs,
    resumed: &mut Abs,
) -> bool
    ensures { result ≡ Ruled.is_resumed_uncovered program.now rules cert.now procedure back state.now callee (Some exit.now) }
{
    let ranges = ranges_of(cert, callee);
    let taken = taken_by(cert, callee);
    let setting = Setting {
        rules,
        ..setting_of(cert, procedure)
    };
    match resume_in(
        program,
        setting,
        cert.region(),
        taken,
        ranges.as_slice(),
        &kept_of(cert, callee),
        state,
        exit,
        resumed,
    ) {
        Return::Nothing => false,
        Return::TooDeep => true,
        Return::States => {
            is_overfull(resumed)
                || !is_state_covered(program, rules, cert, near, procedure, back, resumed)
        }
    }
}

/// Whether no node covers what the caller continues with, by the callee's exit, if it has one.
pub(crate) fn is_back_uncovered(
    program: &Program<'_>,
    rules: Rules,
    cert: &Cert<'_>,
    near: u32,
    procedure: u16,
    back: u16,
    state: &Abs,
    callee: u16,
    exit: &mut Abs,
    other: &mut Abs,
) -> bool
    ensures { result ≡ Ruled.is_back_uncovered program.now rules cert.now procedure back state.now callee }
{
    let Some(lent) = lent_exit_of(cert, callee) else {
        return false;
    };
    lent.read(exit);
    is_return_uncovered(
        program, rules, cert, near, procedure, back, state, callee, exit, other,
    )
}

/// Whether what is called, and has no callee, isn't covered in the same procedure either.
fn is_inlined_uncovered(
    program: &Program<'_>,
    rules: Rules,
    cert: &Cert<'_>,
    near: u32,
    procedure: u16,
    address: u16,
    state: &Abs,
) -> bool
    ensures { result ≡ Ruled.is_inlined_uncovered program.now rules cert.now procedure address state.now }
{
    match rules {
        Rules::Simple => false,
        Rules::Extended => !is_state_covered(program, rules, cert, near, procedure, address, state),
    }
}

/// Whether no node stands for what a call at an address leads to: where the callee returns to, or where it is inlined.
pub(crate) fn is_call_uncovered(
    program: &Program<'_>,
    rules: Rules,
    cert: &Cert<'_>,
    near: u32,
    procedure: u16,
    call: Call,
    state: &Abs,
    callee: Option<u16>,
    exit: &mut Abs,
    other: &mut Abs,
) -> bool
    ensures { result ≡ Ruled.is_call_uncovered program.now rules cert.now procedure call.address call.back state.now callee }
{
    match callee {
        None => is_inlined_uncovered(program, rules, cert, near, procedure, call.address, state),
        Some(callee) => is_back_uncovered(
            program, rules, cert, near, procedure, call.back, state, callee, exit, other,
        ),
    }
}

/// The address that is called, and the one that is returned to.
#[derive(Clone, Copy)]
pub(crate) struct Call {
    pub address: u16,
    pub back: u16,
}

/// Whether a node of the procedure at the address stands for the states behind an instruction that changed items or
/// cells.
#[inline(never)]
fn is_covered_moved(
    program: &Program<'_>,
    rules: Rules,
    cert: &Cert<'_>,
    near: u32,
    procedure: u16,
    address: u16,
    successor: &Successor<'_>,
    room: &mut Room,
) -> bool
    ensures { result ≡ Covered.covered_at program.now rules cert.now procedure address successor.now.state }
{
    successor.put_state(&mut room.behind);
    is_state_covered(program, rules, cert, near, procedure, address, &room.behind)
}

/// Whether a node of the procedure at the address stands for the states behind an instruction.
#[tactic(auto, using(crate::proofs::CoveredLaws::covered_alike))]
fn is_covered(
    program: &Program<'_>,
    rules: Rules,
    cert: &Cert<'_>,
    near: u32,
    procedure: u16,
    address: u16,
    successor: &Successor<'_>,
    room: &mut Room,
) -> bool
    ensures { result ≡ Covered.covered_at program.now rules cert.now procedure address successor.now.state }
{
    match successor.unmoved() {
        Some(lists) => covered_near(
            program,
            rules,
            cert,
            near,
            procedure,
            address,
            &States {
                core: successor.core(),
                relations: successor.relations(),
                summary: successor.summary(),
                lists,
            },
        ),
        None => is_covered_moved(
            program, rules, cert, near, procedure, address, successor, room,
        ),
    }
}

// ---- calls

/// Whether there is no callee where one is asked for, or one that may write where its caller may not.
pub(crate) fn is_outside_of(
    cert: &Cert<'_>,
    setting: Setting,
    procedure: u16,
    callee: Option<u16>,
) -> bool
    ensures { result ≡ Ruled.is_outside_of setting cert.now procedure callee }
{
    let is_extended = setting.rules == Rules::Extended;
    let Some(callee) = callee else {
        return !is_extended;
    };
    if is_extended && setting.is_main {
        return false;
    }
    let inner = ranges_of(cert, callee);
    let outer = ranges_of(cert, procedure);
    !are_ranges_inside(inner.as_slice(), outer.as_slice())
}

// ---- what successors ask

/// What a successor's call asks of the certificate.
#[derive(Clone, Copy, PartialEq, Eq)]
pub(crate) struct Called {
    /// The procedure that is called.
    pub callee: Option<u16>,
    /// The bytes that wait and the callee's need are more than the caller's need.
    pub is_deep: bool,
    /// No node stands for what the call leads to.
    pub is_uncovered: bool,
}

const NO_CALL: Called = Called {
    callee: None,
    is_deep: false,
    is_uncovered: false,
};

/// What a call at an address asks: the states behind it are built once.
#[inline(never)]
fn called_from(
    program: &Program<'_>,
    cert: &Cert<'_>,
    near: u32,
    stack: Stack,
    procedure: u16,
    address: u16,
    successor: &Successor<'_>,
    room: &mut Room,
) -> Called
    ensures { result ≡ Ruled.called_by program.now cert.now stack procedure address successor.now.next successor.now.state }
{
    let setting = stack.setting;
    let rules = setting.rules;
    successor.put_state(&mut room.behind);
    let state = &room.behind;
    let callee = callee_in(program, cert, setting, address, state, &mut room.other);
    let call = Call {
        address,
        back: successor.next,
    };
    Called {
        callee,
        is_deep: is_over(rules, cert, stack.need, state.items().len(), callee),
        is_uncovered: is_call_uncovered(
            program,
            rules,
            cert,
            near,
            procedure,
            call,
            state,
            callee,
            &mut room.exit,
            &mut room.other,
        ),
    }
}

/// What a successor's call asks.
pub(crate) fn called_by(
    program: &Program<'_>,
    cert: &Cert<'_>,
    near: u32,
    stack: Stack,
    procedure: u16,
    successor: &Successor<'_>,
    room: &mut Room,
) -> Called
    ensures { result ≡ Ruled.called_to program.now cert.now stack procedure successor.now.target successor.now.next successor.now.state }
{
    match successor.target {
        Target::Call(address) => called_from(
            program, cert, near, stack, procedure, address, successor, room,
        ),
        Target::At(_) | Target::Main(_) | Target::Return | Target::Unknown | Target::Lost => {
            NO_CALL
        }
    }
}

/// Whether a successor and its callee hold more bytes than the need.
#[tactic(auto, unfolding(crate::specs::Rules::calls_too_deep, crate::specs::Rules::callee_at))]
pub(crate) fn calls_too_deep(
    program: &Program<'_>,
    cert: &Cert<'_>,
    stack: Stack,
    procedure: u16,
    successor: &Successor<'_>,
    called: Called,
) -> bool
    requires { called ≡ Ruled.called_to program.now cert.now stack procedure successor.now.target successor.now.next successor.now.state }
    ensures { result ≡ Ruled.calls_too_deep program.now cert.now stack.setting stack.need successor.now }
{
    match successor.target {
        Target::Call(_) => called.is_deep,
        Target::At(_) | Target::Main(_) | Target::Return | Target::Unknown | Target::Lost => false,
    }
}

/// Whether no node stands for the states behind an instruction, where they go on in the same procedure, at once or when the
/// callee returns, or in main.
#[tactic(auto, unfolding(crate::specs::Rules::is_uncovered))]
pub(crate) fn is_uncovered(
    program: &Program<'_>,
    cert: &Cert<'_>,
    near: u32,
    stack: Stack,
    procedure: u16,
    successor: &Successor<'_>,
    called: Called,
    room: &mut Room,
) -> bool
    requires { called ≡ Ruled.called_to program.now cert.now stack procedure successor.now.target successor.now.next successor.now.state }
    ensures { result ≡ Ruled.is_uncovered program.now stack.setting cert.now procedure successor.now }
{
    let rules = stack.setting.rules;
    match successor.target {
        Target::At(address) => !is_covered(
            program, rules, cert, near, procedure, address, successor, room,
        ),
        Target::Call(_) => called.is_uncovered,
        Target::Main(address) => !is_covered(
            program, rules, cert, near, 0, address, successor, room,
        ),
        Target::Return | Target::Unknown | Target::Lost => false,
    }
}

/// Whether a successor calls what it may not.
#[tactic(auto, unfolding(crate::specs::Rules::is_uncallable))]
pub(crate) fn is_uncallable(
    program: &Program<'_>,
    cert: &Cert<'_>,
    stack: Stack,
    procedure: u16,
    successor: &Successor<'_>,
    called: Called,
) -> bool
    requires { called ≡ Ruled.called_to program.now cert.now stack procedure successor.now.target successor.now.next successor.now.state }
    ensures { result ≡ Ruled.is_uncallable program.now stack.setting cert.now procedure successor.now }
{
    match successor.target {
        Target::Call(_) => is_outside_of(cert, stack.setting, procedure, called.callee),
        Target::At(_) | Target::Main(_) | Target::Return | Target::Unknown | Target::Lost => false,
    }
}

// ---- returns

/// Whether something is left on the stack that an exit of versions 1 and 2 can't say.
fn leaves_items(rules: Rules, state: &Abs) -> bool
    ensures { result ≡ Ruled.leaves_items rules state.now }
{
    match rules {
        Rules::Simple => state.items().len() != 0,
        Rules::Extended => false,
    }
}

/// Whether an exit doesn't stand for a state.
fn is_beyond(program: &Program<'_>, state: &Abs, exit: &StateRef<'_>) -> bool
    ensures { result ≡ not (covers program.now state.now exit.now) }
{
    !covers_states(program, &States::of(state), exit)
}

/// Whether a procedure returns with something on the stack, in a state that its exit doesn't stand for, or
/// doesn't return at all.
fn is_exit_missed(
    program: &Program<'_>,
    rules: Rules,
    state: &Abs,
    exit: Option<StateRef<'_>>,
) -> bool
    ensures { result ≡ Ruled.is_exit_missed program.now rules state.now exit.entry }
{
    match exit {
        None => true,
        Some(exit) => leaves_items(rules, state) || is_beyond(program, state, &exit),
    }
}

/// Whether a successor returns as its procedure's exit doesn't say.
#[inline(never)]
fn is_exit_missed_from(
    program: &Program<'_>,
    rules: Rules,
    cert: &Cert<'_>,
    procedure: u16,
    successor: &Successor<'_>,
    room: &mut Room,
) -> bool
    ensures { result ≡ Ruled.is_exit_missed program.now rules successor.now.state (Procedures.exit_of cert.now procedure) }
{
    successor.put_state(&mut room.behind);
    is_exit_missed(program, rules, &room.behind, lent_exit_of(cert, procedure))
}

/// Whether a successor returns as its procedure may not. Main may not at all.
#[tactic(auto, unfolding(crate::specs::Rules::is_unreturnable))]
pub(crate) fn is_unreturnable(
    program: &Program<'_>,
    rules: Rules,
    cert: &Cert<'_>,
    procedure: u16,
    successor: &Successor<'_>,
    room: &mut Room,
) -> bool
    ensures { result ≡ Ruled.is_unreturnable program.now rules cert.now procedure successor.now }
{
    match successor.target {
        Target::Return => {
            procedure == 0 || is_exit_missed_from(program, rules, cert, procedure, successor, room)
        }
        Target::Lost => true,
        Target::At(_) | Target::Call(_) | Target::Main(_) | Target::Unknown => false,
    }
}
