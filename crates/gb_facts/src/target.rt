//! To which node an instruction leads.

use gb_explain::{
    Abs, Cert, NodeRef, Program, Rom, Successor, Target, callee_at, known_bytes, program_of,
    setting_of, stack_of, successors_of,
};
use gb_ops::decode::decode;

/// The first node of a procedure at an address.
fn node_at(cert: &Cert<'_>, procedure: u16, address: u16) -> Option<u32> {
    let found = cert.find(procedure, address).found;
    if found.first < found.after {
        Some(found.first)
    } else {
        None
    }
}

/// The first node of a callee.
fn entry_of(cert: &Cert<'_>, callee: u16) -> Option<u32> {
    if callee < cert.procedures() {
        Some(cert.procedure(callee).entry())
    } else {
        None
    }
}

/// The node to which a successor leads, if that isn't the instruction behind.
fn target_in(
    program: &Program<'_>,
    cert: &Cert<'_>,
    procedure: u16,
    way: &Option<Successor<'_>>,
) -> Option<u32> {
    let Some(successor) = way else { return None };
    match successor.target {
        Target::At(address) if address != successor.next => node_at(cert, procedure, address),
        Target::Main(address) => node_at(cert, 0, address),
        Target::Call(address) => match callee_at(
            program,
            cert,
            setting_of(cert, procedure),
            successor,
        ) {
            Some(callee) => entry_of(cert, callee),
            None => node_at(cert, procedure, address),
        },
        _ => None,
    }
}

/// The node to which a node's jump or call leads: the first one at the address, whatever state it stands for.
pub fn target_of(rom: &Rom<'_>, cert: &Cert<'_>, node: &NodeRef<'_>, state: &Abs) -> Option<u32> {
    let program = program_of(rom, cert);
    let bytes = known_bytes(&program, rom, state, node.address())?;
    let row = decode(&bytes)?;
    let procedure = node.procedure();
    let stack = stack_of(cert, procedure);
    let ways = successors_of(stack, &program, rom, row, node.address(), state);
    target_in(&program, cert, procedure, &ways.taken)
}
