//! Covering at an address, value by value.

ghost use Rattle.std.specs.Prelude.{◌≡◌, ◌<◌, ◌≤◌, ◌⊎◌, ℕ, true, Some, is_some, IfSome, map, option_map};
ghost use Rattle.std.specs.List.{list_any};
ghost use Rattle.gb_calls.specs.Below.gb_rows.Rows.{IsFound};
ghost use Rattle.gb_calls.specs.Below.gb_states.Rules.{key};
ghost use Rattle.gb_successors.specs.Below.gb_domain.Values.{has_low_bits};
ghost use Rattle.gb_successors.specs.Below.gb_abs.Cells.{is_at};
ghost use Rattle.gb_rules.specs.Covered as Covered;
ghost use Rattle.gb_rules.specs.Covered.{IsUpTo};

use crate::covered::covering_near;
use gb_calls::{Cert, Found, States, are_congruent, byte_of, with_cell};
use gb_ops::op::Register;
use gb_successors::gb_domain::pairs::PairBounds;
use gb_successors::{Cell, Product, Program, Rules, Val, reduced_wholly, with_value};

/// What is told apart value by value: a register, or the byte at an address of RAM, of which this is known.
#[derive(Clone, Copy)]
pub enum Parted {
    Register(Register),
    Byte(u16, Val),
}

/// The nodes at an address of a procedure, and the rules by which they stand for states of a program.
#[derive(Clone, Copy)]
pub(crate) struct Nodes<'w, 'a> {
    pub(crate) program: &'w Program<'w>,
    pub(crate) rules: Rules,
    /// Within which bounds the pairs lay as the procedure was entered.
    pub(crate) entered: PairBounds,
    pub(crate) cert: &'w Cert<'a>,
    pub(crate) found: &'w Found,
    pub(crate) procedure: u16,
    pub(crate) address: u16,
}

/// Whether a value has the low bits that are known.
fn has_value(known: &Val, value: u8) -> bool
    ensures { result ≡ has_low_bits known.now value }
{
    match known.low_bits {
        0 => true,
        count => are_congruent(count, value.into(), known.lo.into()),
    }
}

/// The number of a found node that covers what reducing left of these states. Where nothing is left no node is
/// needed, and the next search begins at `near` again.
fn covering_left(
    nodes: &Nodes<'_, '_>,
    near: u32,
    left: Option<Product>,
    states: &States<'_>,
) -> Option<u32>
    requires found { IsFound (map key nodes.now.cert.now.nodes) (nodes.now.procedure, nodes.now.address) nodes.now.found.now.first nodes.now.found.now.after }
    requires least { nodes.now.found.now.first ≤ near }
    requires most { near ≤ nodes.now.found.now.after }
    ensures covered { is_some result ≡ Covered.is_covered_if nodes.now.program.now nodes.now.cert.now.nodes nodes.now.procedure nodes.now.address (option_map (Covered.with_product (Covered.with_parts states.now.core.now states.now.relations.now states.now.summary.now states.now.lists.now)) left) }
    ensures inside { IfSome result (λ i. (nodes.now.found.now.first ≤ i) × (i ≤ nodes.now.found.now.after)) }
{
    let Some(product) = left else {
        return Some(near);
    };
    let states = States {
        core: &product.core,
        relations: &product.relations,
        ..*states
    };
    covering_near(
        nodes.program,
        nodes.cert,
        nodes.found,
        nodes.procedure,
        nodes.address,
        near,
        &states,
    )
}

/// The number of a found node that covers the states with one value in a register.
#[tactic(auto, using(crate::proofs::CoveredLaws::register_left))]
fn covering_register(
    nodes: &Nodes<'_, '_>,
    near: u32,
    register: Register,
    value: u8,
    states: &States<'_>,
) -> Option<u32>
    requires found { IsFound (map key nodes.now.cert.now.nodes) (nodes.now.procedure, nodes.now.address) nodes.now.found.now.first nodes.now.found.now.after }
    requires least { nodes.now.found.now.first ≤ near }
    requires most { near ≤ nodes.now.found.now.after }
    ensures covered { is_some result ≡ Covered.is_covered_if nodes.now.program.now nodes.now.cert.now.nodes nodes.now.procedure nodes.now.address (Covered.reduced_state nodes.now.program.now nodes.now.rules nodes.now.entered (Covered.with_value register (Covered.with_parts states.now.core.now states.now.relations.now states.now.summary.now states.now.lists.now) value)) }
    ensures inside { IfSome result (λ i. (nodes.now.found.now.first ≤ i) × (i ≤ nodes.now.found.now.after)) }
{
    let core = with_value(register, value, states.core);
    let single = States {
        core: &core,
        ..*states
    };
    let left = reduced_wholly(nodes.program, nodes.rules, &nodes.entered, &single);
    covering_left(nodes, near, left, states)
}

/// The number of a found node that covers the states with one value at an address of RAM, of which this is known.
#[tactic(auto, using(crate::proofs::CoveredLaws::byte_left))]
fn covering_byte(
    nodes: &Nodes<'_, '_>,
    near: u32,
    at: u16,
    known: &Val,
    value: u8,
    states: &States<'_>,
) -> Option<u32>
    requires found { IsFound (map key nodes.now.cert.now.nodes) (nodes.now.procedure, nodes.now.address) nodes.now.found.now.first nodes.now.found.now.after }
    requires least { nodes.now.found.now.first ≤ near }
    requires most { near ≤ nodes.now.found.now.after }
    ensures covered { is_some result ≡ Covered.is_covered_if nodes.now.program.now nodes.now.cert.now.nodes nodes.now.procedure nodes.now.address (Covered.reduced_state nodes.now.program.now nodes.now.rules nodes.now.entered (Covered.with_byte at known.now (Covered.with_parts states.now.core.now states.now.relations.now states.now.summary.now states.now.lists.now) value)) }
    ensures inside { IfSome result (λ i. (nodes.now.found.now.first ≤ i) × (i ≤ nodes.now.found.now.after)) }
{
    let val = Val {
        lo: value,
        hi: value,
        low_bits: 0,
        origin: known.origin,
    };
    let lists = with_cell(Rules::Extended, states.lists, at, val);
    let states = States {
        lists: &lists,
        ..*states
    };
    let left = reduced_wholly(nodes.program, nodes.rules, &nodes.entered, &states);
    covering_left(nodes, near, left, &states)
}

/// What is known of what is told apart.
fn known_of(parted: Parted, states: &States<'_>) -> Val
    ensures { result ≡ Covered.known_of parted (Covered.with_parts states.now.core.now states.now.relations.now states.now.summary.now states.now.lists.now) }
{
    match parted {
        Parted::Register(register) => states.core.registers.get(register),
        Parted::Byte(_, known) => known,
    }
}

/// The number of a found node that covers the states with one value. Of a value that can't be no node is needed.
#[tactic(auto, unfolding(crate::specs::Covered::is_value_covered))]
fn covering_value(
    nodes: &Nodes<'_, '_>,
    near: u32,
    parted: Parted,
    value: u8,
    states: &States<'_>,
) -> Option<u32>
    requires found { IsFound (map key nodes.now.cert.now.nodes) (nodes.now.procedure, nodes.now.address) nodes.now.found.now.first nodes.now.found.now.after }
    requires least { nodes.now.found.now.first ≤ near }
    requires most { near ≤ nodes.now.found.now.after }
    ensures covered { is_some result ≡ Covered.is_value_covered nodes.now.program.now nodes.now.rules nodes.now.entered nodes.now.cert.now.nodes nodes.now.procedure nodes.now.address (Covered.with_parts states.now.core.now states.now.relations.now states.now.summary.now states.now.lists.now) parted value }
    ensures inside { IfSome result (λ i. (nodes.now.found.now.first ≤ i) × (i ≤ nodes.now.found.now.after)) }
{
    if !has_value(&known_of(parted, states), value) {
        return Some(near);
    }
    match parted {
        Parted::Register(register) => covering_register(nodes, near, register, value, states),
        Parted::Byte(at, known) => covering_byte(nodes, near, at, &known, value, states),
    }
}

/// Whether for each value one node covers the states with that value. They are reduced once for each value, and
/// not for each node, and the first value that no node covers ends it: for most registers that is their lowest one.
#[tactic(auto, unfolding(crate::specs::Covered::is_covered_by_values))]
fn is_covered_by_values(nodes: &Nodes<'_, '_>, states: &States<'_>, parted: Parted) -> bool
    requires { IsFound (map key nodes.now.cert.now.nodes) (nodes.now.procedure, nodes.now.address) nodes.now.found.now.first nodes.now.found.now.after }
    ensures { result ≡ Covered.is_covered_by_values nodes.now.program.now nodes.now.rules nodes.now.entered nodes.now.cert.now.nodes nodes.now.procedure nodes.now.address (Covered.with_parts states.now.core.now states.now.relations.now states.now.summary.now states.now.lists.now) parted }
{
    let known = known_of(parted, states);
    let after = u16::from(known.hi) + 1;
    let mut near = nodes.found.first;
    for value in u16::from(known.lo)..after {
        match covering_value(nodes, near, parted, value as u8, states) {
            Some(number) => near = number,
            None => return false,
        }
    }
    true
}

/// The registers whose values are tried.
const REGISTERS: [Register; 7] = [
    Register::A,
    Register::B,
    Register::C,
    Register::D,
    Register::E,
    Register::H,
    Register::L,
];

/// Whether for one of these registers value by value some of the nodes that were found stand for these states.
fn is_covered_by_some(nodes: &Nodes<'_, '_>, states: &States<'_>, registers: &[Register]) -> bool
    requires { IsFound (map key nodes.now.cert.now.nodes) (nodes.now.procedure, nodes.now.address) nodes.now.found.now.first nodes.now.found.now.after }
    ensures { result ≡ list_any (Covered.is_covered_by_register nodes.now.program.now nodes.now.rules nodes.now.entered nodes.now.cert.now.nodes nodes.now.procedure nodes.now.address (Covered.with_parts states.now.core.now states.now.relations.now states.now.summary.now states.now.lists.now)) registers.now }
{
    let Some((first, rest)) = registers.split_first() else {
        return false;
    };
    is_covered_by_values(nodes, states, Parted::Register(*first))
        || is_covered_by_some(nodes, states, rest)
}

/// Whether for one register value by value some of the nodes that were found stand for these states.
pub(crate) fn is_covered_by_registers(nodes: &Nodes<'_, '_>, states: &States<'_>) -> bool
    requires { IsFound (map key nodes.now.cert.now.nodes) (nodes.now.procedure, nodes.now.address) nodes.now.found.now.first nodes.now.found.now.after }
    ensures { result ≡ list_any (Covered.is_covered_by_register nodes.now.program.now nodes.now.rules nodes.now.entered nodes.now.cert.now.nodes nodes.now.procedure nodes.now.address (Covered.with_parts states.now.core.now states.now.relations.now states.now.summary.now states.now.lists.now)) Covered.registers }
{
    is_covered_by_some(nodes, states, &REGISTERS)
}

// ---- a byte of RAM

/// Whether there is a cell at an address.
fn is_held(at: u16, cells: &[Cell]) -> bool
    ensures { result ≡ list_any (is_at at) cells.now }
{
    cells.iter().any(|cell| cell.address == at)
}

/// Whether for each value of the byte at an address of RAM one node covers the states with that value.
#[tactic(auto, unfolding(crate::specs::Covered::is_covered_by_byte))]
fn is_covered_by_byte(nodes: &Nodes<'_, '_>, states: &States<'_>, at: u16) -> bool
    requires { IsFound (map key nodes.now.cert.now.nodes) (nodes.now.procedure, nodes.now.address) nodes.now.found.now.first nodes.now.found.now.after }
    ensures { result ≡ Covered.is_covered_by_byte nodes.now.program.now nodes.now.rules nodes.now.entered nodes.now.cert.now.nodes nodes.now.procedure nodes.now.address (Covered.with_parts states.now.core.now states.now.relations.now states.now.summary.now states.now.lists.now) at }
{
    let known = byte_of(nodes.program, states, at);
    let cells = states.lists.cells();
    known.lo != known.hi
        && (is_held(at, cells) || cells.len() < Rules::Extended.cell_room())
        && is_covered_by_values(nodes, states, Parted::Byte(at, known))
}

/// The lower one of two addresses.
fn sooner(left: Option<u16>, right: Option<u16>) -> Option<u16>
    ensures one { IfSome result (λ at. (left ≡ Some at) ⊎ (right ≡ Some at)) }
    ensures left { (at : ℕ) → IsUpTo left at → IsUpTo result at }
    ensures right { (at : ℕ) → IsUpTo right at → IsUpTo result at }
{
    match (left, right) {
        (Some(left), Some(right)) => Some(left.min(right)),
        (None, _) => right,
        (_, None) => left,
    }
}

/// The lowest address of a cell, from one on.
fn next_in(cells: &[Cell], least: u32) -> Option<u16>
    ensures some { IfSome result (λ at. (least ≤ at) × (list_any (is_at at) cells.now ≡ true)) }
    ensures first { (at : ℕ) → least ≤ at → list_any (is_at at) cells.now ≡ true → IsUpTo result at }
{
    let (first, rest) = cells.split_first()?;
    let here = if least <= u32::from(first.address) {
        Some(first.address)
    } else {
        None
    };
    sooner(here, next_in(rest, least))
}

/// The lowest address, from one on, at which one of the nodes that were found has a cell.
fn next_address(nodes: &Nodes<'_, '_>, least: u32) -> Option<u16>
    requires { IsFound (map key nodes.now.cert.now.nodes) (nodes.now.procedure, nodes.now.address) nodes.now.found.now.first nodes.now.found.now.after }
    ensures some { IfSome result (λ at. (least ≤ at) × (Covered.has_cell_there nodes.now.cert.now.nodes nodes.now.procedure nodes.now.address at ≡ true)) }
    ensures first { (at : ℕ) → least ≤ at → Covered.has_cell_there nodes.now.cert.now.nodes nodes.now.procedure nodes.now.address at ≡ true → IsUpTo result at }
{
    let mut next = None;
    for number in nodes.found.first..nodes.found.after {
        let state = nodes.cert.node(number).state();
        next = sooner(next, next_in(state.cells(), least));
    }
    next
}

/// Whether for the byte at an address of RAM value by value some of the nodes that were found stand for these states. Each address at
/// which one of them has a cell is tried once.
pub(crate) fn is_covered_by_bytes(nodes: &Nodes<'_, '_>, states: &States<'_>) -> bool
    requires { IsFound (map key nodes.now.cert.now.nodes) (nodes.now.procedure, nodes.now.address) nodes.now.found.now.first nodes.now.found.now.after }
    ensures { result ≡ Covered.is_covered_by_bytes nodes.now.program.now nodes.now.rules nodes.now.entered nodes.now.cert.now.nodes nodes.now.procedure nodes.now.address (Covered.with_parts states.now.core.now states.now.relations.now states.now.summary.now states.now.lists.now) }
{
    let mut least = 0;
    while let Some(at) = next_address(nodes, least) {
        if is_covered_by_byte(nodes, states, at) {
            return true;
        }
        least = u32::from(at) + 1;
    }
    false
}
