//! What tells the nodes of an address apart, and the procedures of a target.

use crate::code_point::CodePoint;
use crate::register_set::{REGISTERS, RegisterSet};
use gb_verify::gb_ops::op::Register;
use gb_verify::gb_ops::registers::Registers;
use gb_verify::{Abs, Core, Ctl, May, Val};

/// The values of registers that have one alone, in the order of their letters, and the carry where it is known and tells apart.
#[derive(Clone, Copy, PartialEq, Eq, Hash)]
pub struct KnownRegisters {
    values: [Option<u8>; 7],
    carry: Option<bool>,
}

/// The bounds and sets of a controller's registers.
#[derive(Clone, Copy, PartialEq, Eq, Hash)]
pub struct ControllerKey {
    pub bank: (u16, u16),
    pub second: (u8, u8),
    /// Whether the gate may be closed, and whether it may be open.
    pub gate: (bool, bool),
    /// Whether the mode may be 0, and whether it may be 1.
    pub mode: (bool, bool),
}

/// What tells the nodes of an address of a procedure apart.
#[derive(Clone, Copy, PartialEq, Eq, Hash)]
pub struct NodeKey {
    /// The number of the procedure.
    pub procedure: usize,
    pub address: u16,
    /// The bank shown at the address, 0 for RAM; None where it isn't known.
    pub bank: Option<u16>,
    /// The one node where its procedure begins. It joins all that enters: nothing below is part of its key.
    pub is_entry: bool,
    /// Whether interrupts may be off, pending and on.
    pub ime: (bool, bool, bool),
    pub bound: u8,
    pub stack_set: bool,
    /// The first and the last address where SP may be, while the stack is put aside.
    pub aside: Option<(u16, u16)>,
    pub items: usize,
    pub controller: Option<ControllerKey>,
    /// The bounds of IE.
    pub ie: (u8, u8),
    pub registers: KnownRegisters,
    /// The number of the values that the key cells have.
    pub cells: usize,
    /// The number of the known words that addresses behind inlined calls are, and of what else is known of the stack.
    pub words: usize,
}

/// What tells the procedures of a target apart.
#[derive(Clone, Copy, PartialEq, Eq, Hash)]
pub struct ProcedureKey {
    /// The address where it begins.
    pub target: u16,
    /// The bank shown there, 0 for RAM; None where it isn't known.
    pub bank: Option<u16>,
    /// Whether it handles an interrupt.
    pub is_handler: bool,
    /// Whether interrupts may be off, pending and on.
    pub ime: (bool, bool, bool),
    pub bound: u8,
    /// None where it isn't parted by the controller.
    pub controller: Option<ControllerKey>,
    /// The bounds of IE, of a procedure that is called.
    pub ie: (u8, u8),
    pub registers: KnownRegisters,
    /// The number of the values that the key cells have.
    pub cells: usize,
    /// The address above its items, 0 where it isn't known.
    pub base: u16,
    /// How many of its caller's bytes it takes over.
    pub taken: u8,
    /// Whether all facts hold where it is called.
    pub has_all_facts: bool,
}

/// The value of an interval that has one alone, if it is wanted.
fn known(val: Val, is_wanted: bool) -> Option<u8> {
    if is_wanted && val.lo == val.hi {
        Some(val.lo)
    } else {
        None
    }
}

impl KnownRegisters {
    /// Those of these registers that are known.
    pub fn of(registers: &Registers<Val>, wanted: &RegisterSet) -> KnownRegisters {
        KnownRegisters {
            values: [
                known(registers.a, wanted.contains(Register::A)),
                known(registers.b, wanted.contains(Register::B)),
                known(registers.c, wanted.contains(Register::C)),
                known(registers.d, wanted.contains(Register::D)),
                known(registers.e, wanted.contains(Register::E)),
                known(registers.h, wanted.contains(Register::H)),
                known(registers.l, wanted.contains(Register::L)),
            ],
            carry: None,
        }
    }

    /// Those of these registers that are known, and those of others that are known to be 0, or FF, to which 0 is counted down.
    pub fn with_ends(
        registers: &Registers<Val>,
        wanted: &RegisterSet,
        peeled: &RegisterSet,
    ) -> KnownRegisters {
        let mut ends = RegisterSet::empty();
        for register in REGISTERS {
            let val = registers.get(register);
            if peeled.contains(register) && (val.hi == 0 || val.lo == u8::MAX) {
                ends.insert(register);
            }
        }
        KnownRegisters::of(registers, &wanted.union(&ends))
    }

    /// These, and the carry where it is known.
    pub fn with_carry(self, carry: May) -> KnownRegisters {
        KnownRegisters {
            carry: if carry.clear == carry.set {
                None
            } else {
                Some(carry.set)
            },
            ..self
        }
    }

    /// No register.
    pub fn none() -> KnownRegisters {
        KnownRegisters {
            values: [None; 7],
            carry: None,
        }
    }
}

impl ControllerKey {
    pub fn of(ctl: &Ctl) -> ControllerKey {
        ControllerKey {
            bank: (ctl.bank_lo, ctl.bank_hi),
            second: (ctl.second_lo, ctl.second_hi),
            gate: (ctl.gate.clear, ctl.gate.set),
            mode: (ctl.mode.clear, ctl.mode.set),
        }
    }

    /// The same, in which the bank isn't told apart.
    pub fn without_bank(self) -> ControllerKey {
        ControllerKey {
            bank: (0, 511),
            ..self
        }
    }

    /// The same, in which banks that have more than one value aren't told apart.
    pub fn of_known_banks(self) -> ControllerKey {
        let is_known = self.bank.0 == self.bank.1;
        let is_second_known = self.second.0 == self.second.1;
        ControllerKey {
            bank: if is_known { self.bank } else { (0, 511) },
            second: if is_second_known {
                self.second
            } else {
                (0, 255)
            },
            ..self
        }
    }
}

impl NodeKey {
    /// The key of a procedure's first node.
    pub fn of_entry(procedure: usize, point: CodePoint) -> NodeKey {
        NodeKey {
            procedure,
            address: point.address,
            bank: point.bank,
            is_entry: true,
            ime: (false, false, false),
            bound: 0,
            stack_set: true,
            aside: None,
            items: 0,
            controller: None,
            ie: (0, 0),
            registers: KnownRegisters::none(),
            cells: 0,
            words: 0,
        }
    }

    /// The key of a node with these states, parted by what is told apart of the controller, registers, key cells and words.
    pub fn of_state(
        procedure: usize,
        point: CodePoint,
        state: &Abs,
        controller: ControllerKey,
        registers: KnownRegisters,
        cells: usize,
        words: usize,
    ) -> NodeKey {
        let core = state.core();
        NodeKey {
            procedure,
            address: point.address,
            bank: point.bank,
            is_entry: false,
            ime: (core.ime.off, core.ime.pending, core.ime.on),
            bound: core.bound,
            stack_set: core.stack_set,
            aside: state
                .summary()
                .aside()
                .map(|bounds| (bounds.first, bounds.last)),
            items: state.items().len(),
            controller: Some(controller),
            ie: (core.ie.lo, core.ie.hi),
            registers,
            cells,
            words,
        }
    }

    /// Where the node is.
    pub fn point(&self) -> CodePoint {
        CodePoint {
            address: self.address,
            bank: self.bank,
        }
    }
}

impl ProcedureKey {
    /// Main's key.
    pub fn of_main(core: &Core, base: u16) -> ProcedureKey {
        ProcedureKey {
            target: 0x0100,
            bank: Some(0),
            is_handler: false,
            ime: (true, false, false),
            bound: 0,
            controller: Some(ControllerKey::of(&core.ctl)),
            ie: (0, 0),
            registers: KnownRegisters::none(),
            cells: 0,
            base,
            taken: 0,
            has_all_facts: false,
        }
    }

    /// Where the procedure begins.
    pub fn point(&self) -> CodePoint {
        CodePoint {
            address: self.target,
            bank: self.bank,
        }
    }
}
