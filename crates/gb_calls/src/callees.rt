//! Which procedure is called.

ghost use Rattle.std.specs.Prelude.{◌≡◌, ◌≤◌};
ghost use Rattle.gb_cert.specs.Namesakes.{AreAmong};
ghost use Rattle.gb_product.specs.Covering.{covers};
ghost use Rattle.gb_calls.specs.Calls as Calls;

use crate::covering::covers_states;
use crate::entering::enter_in;
use arrayvec::ArrayVec;
use gb_cert::{Cert, ProcedureRef, StateRef};
use gb_domain::types::{Abs, Rules, Setting};
use gb_ops::machine::Region;
use gb_product::{Program, States};

/// Whether a base that is said is so many bytes below the caller's, which then is said too.
fn is_base_below(caller: Option<u16>, base: u16, below: usize) -> bool
    requires { below ≤ 255 }
    ensures { result ≡ Calls.is_base_below caller base below }
{
    match caller {
        None => base == 0,
        Some(caller) => base == 0 || usize::from(base) + below == usize::from(caller),
    }
}

/// Whether a procedure with this base, whose entry node has `count` items, may take them of a caller's `held`.
#[tactic(auto, unfolding(crate::specs::Calls::fits))]
fn fits(setting: Setting, base: u16, count: usize, held: usize) -> bool
    requires { held ≤ 255 }
    ensures { result ≡ Calls.fits setting base count held }
{
    match setting.rules {
        Rules::Simple => true,
        Rules::Extended => {
            count <= held && is_base_below(setting.known_base(), base, held - count)
        }
    }
}

/// Whether a state at a procedure's entry stands for what one begins with that takes so many items over of these states, and names these
/// addresses to be kept. That is put in the place of other states.
fn covers_entered(
    program: &Program<'_>,
    region: Region,
    rules: Rules,
    count: u8,
    kept: &ArrayVec<u16, 16>,
    state: &Abs,
    entry: &StateRef<'_>,
    room: &mut Abs,
) -> bool
    ensures { result ≡ covers program.now (Calls.entered_by program.now region rules count kept.now.items state.now) entry.now }
{
    enter_in(program, region, rules, count, kept, state, room);
    covers_states(program, &States::of(room), entry)
}

/// Whether a procedure with this base, these kept addresses and this state at its entry may begin where it is called in these states.
#[tactic(auto, unfolding(crate::specs::Calls::may_begin))]
fn may_begin(
    program: &Program<'_>,
    region: Region,
    setting: Setting,
    state: &Abs,
    base: u16,
    kept: &ArrayVec<u16, 16>,
    entry: &StateRef<'_>,
    room: &mut Abs,
) -> bool
    ensures { result ≡ Calls.may_begin program.now region setting state.now base kept.now.items entry.now }
{
    let count = entry.item_count();
    fits(setting, base, usize::from(count), state.items().len())
        && covers_entered(
            program,
            region,
            setting.rules,
            count,
            kept,
            state,
            entry,
            room,
        )
}

/// Whether a procedure begins at the address, in a state that stands for these. The state is decoded only where
/// the address is right.
#[tactic(auto, unfolding(crate::specs::Calls::is_entry))]
fn is_entry(
    program: &Program<'_>,
    cert: &Cert<'_>,
    setting: Setting,
    address: u16,
    state: &Abs,
    procedure: &ProcedureRef<'_>,
    room: &mut Abs,
) -> bool
    ensures { result ≡ Calls.is_entry program.now cert.now setting address state.now procedure.now }
{
    let entry = procedure.entry();
    if entry >= cert.nodes() {
        return false;
    }
    let node = cert.node(entry);
    node.address() == address
        && may_begin(
            program,
            cert.region(),
            setting,
            state,
            procedure.base(),
            &procedure.kept(),
            &node.lent(),
            room,
        )
}

/// The numbers among which all procedures behind main are that begin at the address: from the first to below the second. In
/// version 4 procedures stand by these addresses, and it is no others; in versions 1 to 3 they stand in any order.
fn numbers_at(cert: &Cert<'_>, address: u16) -> (u16, u16)
    ensures { AreAmong cert.now address result.0 result.1 }
{
    if cert.version() == 4 {
        let found = cert.find_procedures(address);
        (found.first, found.after)
    } else {
        (1, cert.procedures())
    }
}

/// The callee of a call to an address in these states, which stand in the setting: the first procedure but main whose
/// entry node has the address, and that may begin there (own). By the rules of version 3 the return word is among the
/// items of these states, which have those that the entry node has, and a base that the procedure says is right. Other states
/// are given, in whose place states are written.
#[tactic(auto, unfolding(crate::specs::Calls::callee_of))]
pub fn callee_in(
    program: &Program<'_>,
    cert: &Cert<'_>,
    setting: Setting,
    address: u16,
    state: &Abs,
    room: &mut Abs,
) -> Option<u16>
    ensures exact { result ≡ Calls.callee_of program.now cert.now setting address state.now }
{
    let (first, after) = numbers_at(cert, address);
    for i in first..after {
        let procedure = cert.procedure(i);
        if is_entry(program, cert, setting, address, state, &procedure, room) {
            return Some(i);
        }
    }
    None
}

/// The first procedure that may be called at the address in this state, as `callee_in` finds it, with room of its own.
pub fn callee(
    program: &Program<'_>,
    cert: &Cert<'_>,
    setting: Setting,
    address: u16,
    state: &Abs,
) -> Option<u16>
    ensures exact { result ≡ Calls.callee_of program.now cert.now setting address state.now }
{
    let mut room = Abs::new(*state.core());
    callee_in(program, cert, setting, address, state, &mut room)
}
