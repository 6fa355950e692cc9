//! Covering at an address.

ghost use Rattle.std.specs.Prelude.{◌≡◌, ◌==◌, ◌<◌, ◌≤◌, ◌&&◌, ◌||◌, ℕ, true, false, Some, slice_get, length, is_some, IfSome, IfNone, map};
ghost use Rattle.gb_calls.specs.Below.gb_rows.Rows.{IsFound};
ghost use Rattle.gb_successors.specs.Below.gb_domain.Types.{Node};
ghost use Rattle.gb_calls.specs.Below.gb_states.Rules.{key};
ghost use Rattle.gb_successors.specs.Below.gb_product.Covering.{covers};
ghost use Rattle.gb_rules.specs.Covered as Covered;

use crate::by_values::{Nodes, is_covered_by_bytes, is_covered_by_registers};
use crate::procedures::entered_of;
use gb_calls::{Cert, Found, NodeRef, States, covering};
use gb_successors::{Abs, Program, Rules};

/// Whether the state of a node stands for each machine state that these stand for.
fn covers_states(program: &Program<'_>, states: &States<'_>, node: &NodeRef<'_>) -> bool
    ensures { result ≡ covers program.now (Covered.with_parts states.now.core.now states.now.relations.now states.now.summary.now states.now.lists.now) node.now.state }
{
    covering::covers_states(program, states, &node.lent())
}

/// The first node that covers these states, among those from one number to below another.
fn first_covering(
    program: &Program<'_>,
    cert: &Cert<'_>,
    from: u32,
    after: u32,
    states: &States<'_>,
) -> Option<u32>
    requires { after ≤ length cert.now.nodes }
    ensures inside { IfSome result (λ i. (from ≤ i) × (i < after)) }
    ensures some { IfSome result (λ i. IfSome (slice_get cert.now.nodes i) (λ n. covers program.now (Covered.with_parts states.now.core.now states.now.relations.now states.now.summary.now states.now.lists.now) n.state ≡ true)) }
    ensures none { IfNone result ((i : ℕ) (n : Node) → from ≤ i → i < after → slice_get cert.now.nodes i ≡ Some n → covers program.now (Covered.with_parts states.now.core.now states.now.relations.now states.now.summary.now states.now.lists.now) n.state ≡ false) }
{
    for number in from..after {
        let node = cert.node(number);
        if covers_states(program, states, &node) {
            return Some(number);
        }
    }
    None
}

/// The number of a found node that covers these states. The search begins at `near` and then turns to the nodes before it:
/// the node that covers a register's next value often comes right after the one for this value.
pub(crate) fn covering_near(
    program: &Program<'_>,
    cert: &Cert<'_>,
    found: &Found,
    procedure: u16,
    address: u16,
    near: u32,
    states: &States<'_>,
) -> Option<u32>
    requires found { IsFound (map key cert.now.nodes) (procedure, address) found.now.first found.now.after }
    requires least { found.now.first ≤ near }
    requires most { near ≤ found.now.after }
    ensures covered { is_some result ≡ Covered.is_covered_by_one program.now cert.now.nodes procedure address (Covered.with_parts states.now.core.now states.now.relations.now states.now.summary.now states.now.lists.now) }
    ensures inside { IfSome result (λ i. (found.now.first ≤ i) × (i < found.now.after)) }
{
    match first_covering(program, cert, near, found.after, states) {
        Some(number) => Some(number),
        None => first_covering(program, cert, found.first, near, states),
    }
}

/// Whether one of the nodes that were found stands for these states.
fn is_covered_by_one(
    program: &Program<'_>,
    cert: &Cert<'_>,
    found: &Found,
    procedure: u16,
    address: u16,
    states: &States<'_>,
) -> bool
    requires { IsFound (map key cert.now.nodes) (procedure, address) found.now.first found.now.after }
    ensures { result ≡ Covered.is_covered_by_one program.now cert.now.nodes procedure address (Covered.with_parts states.now.core.now states.now.relations.now states.now.summary.now states.now.lists.now) }
{
    covering_near(
        program,
        cert,
        found,
        procedure,
        address,
        found.first,
        states,
    )
    .is_some()
}

/// Whether value by value some of the nodes that were found stand for these states.
fn is_covered_apart(
    program: &Program<'_>,
    rules: Rules,
    cert: &Cert<'_>,
    found: &Found,
    procedure: u16,
    address: u16,
    states: &States<'_>,
) -> bool
    requires { IsFound (map key cert.now.nodes) (procedure, address) found.now.first found.now.after }
    ensures { result ≡ Covered.is_covered_apart program.now rules cert.now procedure address (Covered.with_parts states.now.core.now states.now.relations.now states.now.summary.now states.now.lists.now) }
{
    let nodes = Nodes {
        program,
        rules,
        entered: entered_of(cert, procedure),
        cert,
        found,
        procedure,
        address,
    };
    is_covered_by_registers(&nodes, states)
        || cert.version() == 4 && is_covered_by_bytes(&nodes, states)
}

/// Whether one of the nodes that were found stands for these states, or value by value some do.
#[tactic(auto, unfolding(crate::specs::Covered::covered_at))]
fn is_covered_among(
    program: &Program<'_>,
    rules: Rules,
    cert: &Cert<'_>,
    found: Found,
    procedure: u16,
    address: u16,
    states: &States<'_>,
) -> bool
    requires { IsFound (map key cert.now.nodes) (procedure, address) found.first found.after }
    ensures { result ≡ Covered.covered_at program.now rules cert.now procedure address (Covered.with_parts states.now.core.now states.now.relations.now states.now.summary.now states.now.lists.now) }
{
    is_covered_by_one(program, cert, &found, procedure, address, states)
        || is_covered_apart(program, rules, cert, &found, procedure, address, states)
}

/// Whether there is a node with a number, of this procedure and at this address.
#[inline(always)]
fn has_key(cert: &Cert<'_>, number: u32, procedure: u16, address: u16) -> bool
    ensures some { IfSome (slice_get cert.now.nodes number) (λ n. result ≡ (n.procedure == procedure && n.address == address)) }
    ensures none { IfNone (slice_get cert.now.nodes number) (result ≡ false) }
    ensures inside { result ≡ true → number < length cert.now.nodes }
{
    if number < cert.nodes() {
        let node = cert.node(number);
        node.procedure() == procedure && node.address() == address
    } else {
        false
    }
}

/// Whether one node of the procedure stands for these states at the address, or value by value some do. Only the nodes of that procedure and address are looked at. Mostly the one behind the node with the number
/// `near` stands for them, or else the first one, which is looked for from there on; the others are looked for only where it
/// doesn't.
pub fn covered_near(
    program: &Program<'_>,
    rules: Rules,
    cert: &Cert<'_>,
    near: u32,
    procedure: u16,
    address: u16,
    states: &States<'_>,
) -> bool
    ensures { result ≡ Covered.covered_at program.now rules cert.now procedure address (Covered.with_parts states.now.core.now states.now.relations.now states.now.summary.now states.now.lists.now) }
{
    let behind = near.saturating_add(1);
    let is_there = has_key(cert, behind, procedure, address);
    if is_there && covers_states(program, states, &cert.node(behind)) {
        return true;
    }
    let start = if is_there { near } else { behind };
    let first = cert.first_near(start, procedure, address).number;
    if has_key(cert, first, procedure, address)
        && covers_states(program, states, &cert.node(first))
    {
        return true;
    }
    let found = cert.found_from(first, procedure, address).found;
    is_covered_among(program, rules, cert, found, procedure, address, states)
}

/// Whether one node of the procedure stands for these states at the address, or value by value some do. Only the nodes of that procedure and address are looked at.
pub fn covered_at(
    program: &Program<'_>,
    rules: Rules,
    cert: &Cert<'_>,
    procedure: u16,
    address: u16,
    state: &Abs,
) -> bool
    ensures { result ≡ Covered.covered_at program.now rules cert.now procedure address state.now }
{
    is_state_covered(program, rules, cert, 0, procedure, address, state)
}

/// Whether a state is covered at the address, as `covered_at` says; the search starts at the node with the number `near`.
pub(crate) fn is_state_covered(
    program: &Program<'_>,
    rules: Rules,
    cert: &Cert<'_>,
    near: u32,
    procedure: u16,
    address: u16,
    state: &Abs,
) -> bool
    ensures { result ≡ Covered.covered_at program.now rules cert.now procedure address state.now }
{
    covered_near(
        program,
        rules,
        cert,
        near,
        procedure,
        address,
        &States::of(state),
    )
}
