//! What there is to say of each procedure by itself.

use arrayvec::ArrayVec;
use gb_explain::{Abs, Cert, NodeRef, Origin, Range, Val};
use gb_ops::op::Register;
use gb_ops::registers::Registers;
use std::alloc::{AllocError, Global};

/// What a procedure gives back as it found it.
#[derive(Clone, Copy, PartialEq, Eq)]
pub struct Exit {
    pub registers: Registers<bool>,
    pub flags: bool,
    pub ie: bool,
    /// The controller's registers, the shown bank among them.
    pub controller: bool,
}

/// The most bytes of the stack that a procedure's own nodes hold, and the first node that holds so many.
#[derive(Clone, Copy, PartialEq, Eq)]
pub struct Peak {
    pub bytes: u8,
    pub node: u32,
}

/// A procedure, by its place in the certificate.
#[derive(Drop)]
pub struct ProcedureFacts {
    /// Its first node, and where that lies.
    pub entry: u32,
    pub address: u16,
    pub bank: u16,
    pub nodes: u32,
    /// The bytes of stack that the certificate allows it, those of its callees among them.
    pub need: u16,
    /// The RAM that it may write, its callees' writes among them.
    pub ranges: ArrayVec<Range, 8>,
    /// What it gives back as it found it, if it returns.
    pub exit: Option<Exit>,
    /// The addresses whose bytes it then gives back as they were.
    pub kept: ArrayVec<u16, 16>,
    /// The most bytes that it holds itself.
    pub own: Peak,
    /// The most bytes that it holds with all that it calls and all that interrupts it.
    pub depth: u32,
    /// By which link it holds the most, if not by itself.
    pub deepest: Option<usize>,
    /// It may run in an interrupt's handler, or is one.
    pub is_in_handler: bool,
}

/// Whether a register's value is what it was as the procedure was entered.
fn is_kept(val: Val, register: Register) -> bool {
    val.origin == Some(Origin::of(register))
}

/// The registers that are what they were.
fn kept_registers(registers: &Registers<Val>) -> Registers<bool> {
    Registers {
        a: is_kept(registers.a, Register::A),
        b: is_kept(registers.b, Register::B),
        c: is_kept(registers.c, Register::C),
        d: is_kept(registers.d, Register::D),
        e: is_kept(registers.e, Register::E),
        h: is_kept(registers.h, Register::H),
        l: is_kept(registers.l, Register::L),
    }
}

impl Exit {
    /// What an exit's state says.
    fn of(state: &Abs) -> Exit {
        let core = state.core();
        Exit {
            registers: kept_registers(&core.registers),
            flags: core.flags.is_own,
            ie: core.ie.origin == Some(Origin::Ie),
            controller: core.ctl.kept.are_all(),
        }
    }
}

/// Whether an exit's state says that the byte at an address is the one that was kept under a number.
fn is_given_back(state: &Abs, number: u8, address: u16) -> bool {
    for cell in state.cells() {
        if cell.address == address {
            return cell.val.origin == Some(Origin::Kept(number));
        }
    }
    false
}

/// Of the addresses that a procedure names to be kept those whose bytes its exit gives back.
fn given_back(kept: &[u16], exit: Option<&Abs>) -> ArrayVec<u16, 16> {
    let mut addresses = ArrayVec::new();
    let Some(state) = exit else {
        return addresses;
    };
    let mut number: u8 = 0;
    for address in kept {
        if is_given_back(state, number, *address) {
            let _ = addresses.try_push(*address);
        }
        number = number.saturating_add(1);
    }
    addresses
}

/// Where a node lies: its bank and its address.
pub(crate) fn place_of(cert: &Cert<'_>, number: u32) -> (u16, u16) {
    if number >= cert.nodes() {
        return (0, 0);
    }
    let node = cert.node(number);
    (node.bank(), node.address())
}

/// What the certificate says of a procedure, before its nodes are looked at.
fn declared(cert: &Cert<'_>, number: u16) -> Option<ProcedureFacts> {
    if number >= cert.procedures() {
        return None;
    }
    let procedure = cert.procedure(number);
    let entry = procedure.entry();
    let (bank, address) = place_of(cert, entry);
    let state = procedure.exit();
    let kept = given_back(procedure.kept().as_slice(), state.as_ref());
    let exit = state.as_ref().map(Exit::of);
    Some(ProcedureFacts {
        entry,
        address,
        bank,
        nodes: 0,
        need: procedure.need(),
        ranges: procedure.ranges(),
        exit,
        kept,
        own: Peak {
            bytes: 0,
            node: entry,
        },
        depth: 0,
        deepest: None,
        is_in_handler: false,
    })
}

/// The procedures of a certificate, before its nodes are looked at.
pub(crate) fn all_declared(
    alloc: Global,
    cert: &Cert<'_>,
) -> Result<Vec<ProcedureFacts>, AllocError> {
    let mut procedures = Vec::new(alloc);
    for number in 0..cert.procedures() {
        if let Some(procedure) = declared(cert, number) {
            procedures.push(procedure)?;
        }
    }
    Ok(procedures)
}

/// Counts a node of its procedure, with the bytes that it holds.
pub(crate) fn count_node(
    procedures: &mut Vec<ProcedureFacts>,
    number: u32,
    node: &NodeRef<'_>,
    state: &Abs,
) {
    let bytes = state.items().len() as u8;
    let Some(procedure) = procedures.get_mut(usize::from(node.procedure())) else {
        return;
    };
    procedure.nodes = procedure.nodes.saturating_add(1);
    if procedure.own.bytes < bytes {
        procedure.own = Peak {
            bytes,
            node: number,
        };
    }
    if procedure.depth < u32::from(bytes) {
        procedure.depth = u32::from(bytes);
    }
}
