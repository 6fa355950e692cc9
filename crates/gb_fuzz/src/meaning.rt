//! Whether a certificate says what a cartridge reaches: in each reached state some node at its PC, in the bank shown there, has to
//! mean what the machine holds, all its parts together. A fact that is overclaimed needs no fault to be seen here.
//!
//! Two things aren't seen in one state, and are taken to be so: what was held as a procedure other than main was entered, and where
//! the items of a stack are that is put aside, above a base that isn't known. So is the mark's address then.

use crate::claims::Claims;
use crate::reached::ReachedState;
use crate::values::{Entered, are_in, is_in, is_value, may_flags_be};
use gb_cpu::{Bus, Cpu};
use gb_domain::pairs::ANY_PAIRS;
use gb_domain::types::{Abs, Rules, Setting};
use gb_domain::{Cell, Core, Fact, Fill, FillEnd, ImeSet, Reach};
use gb_ops::op::Pointer;
use gb_ops::registers::{Ime, Registers};
use gb_printed::gb_calls::gb_cert::Cert;
use std::alloc::Global;

fn may_ime_be(ime: Ime, claimed: ImeSet) -> bool {
    match ime {
        Ime::Off => claimed.off,
        Ime::Pending => claimed.pending,
        Ime::On => claimed.on,
    }
}

fn has_cell(cells: &[Cell], address: u16) -> bool {
    cells.iter().any(|cell| cell.address == address)
}

/// The address that a pointer holds.
fn pointed(registers: &Registers<u8>, pointer: Pointer) -> u16 {
    let (high, low) = match pointer {
        Pointer::Bc => (registers.b, registers.c),
        Pointer::De => (registers.d, registers.e),
        Pointer::Hl => (registers.h, registers.l),
        Pointer::HighC => (0xFF, registers.c),
    };
    u16::from_be_bytes([high, low])
}

/// Whether an address is on a fill's side of its end: sums are whole numbers, not modulo.
fn is_filled(registers: &Registers<u8>, end: Option<FillEnd>, address: u16) -> bool {
    let Some(end) = end else {
        return true;
    };
    // The distance is 32,768 more than it is.
    let bound = u32::from(pointed(registers, end.pointer)).saturating_add(u32::from(end.offset));
    let place = u32::from(address).saturating_add(0x8000);
    match end.reach {
        Reach::Below => place < bound,
        Reach::Above => place > bound,
    }
}

/// Where a procedure's states stand.
fn setting_of(cert: &Cert<'_>, procedure: u16) -> Setting {
    let base = if procedure < cert.procedures() {
        cert.procedure(procedure).base()
    } else {
        0
    };
    Setting {
        rules: Rules::of(cert.version()),
        is_whole: cert.version() == 4,
        is_main: procedure == 0,
        base,
        entered: ANY_PAIRS,
    }
}

impl ReachedState<'_> {
    /// What is known of how the procedure of a state was entered, if it has this mark: main at power-up.
    fn entered_by(&self, setting: Setting, state: &Abs, mark: u8) -> Entered {
        Entered {
            processor: if setting.is_main {
                Some(Cpu::at_power_up(self.memory.cartridge()).processor)
            } else {
                None
            },
            mark: self.address_below(setting, state, mark),
        }
    }

    /// Whether registers, flags, IE, IME and the controller are what a core says.
    fn keeps_core(&mut self, setting: Setting, core: &Core, entered: Entered) -> bool {
        let enabled = self.memory.read(0xFFFF);
        are_in(&self.processor.registers, &core.registers, entered)
            && may_flags_be(&self.processor.flags, &core.flags, entered)
            && is_in(enabled, &core.ie, entered)
            && may_ime_be(self.processor.ime, core.ime)
            && self.keeps_controller(setting, &core.ctl)
    }

    /// Whether a fact holds here, addresses with cells apart.
    fn keeps_fact(&mut self, fact: &Fact, cells: &[Cell]) -> bool {
        let value = fact.value;
        for address in fact.first..=fact.last {
            let apart = address.wrapping_sub(fact.first);
            let is_said = apart % u16::from(fact.step).max(1) == 0;
            if is_said
                && !has_cell(cells, address)
                && !is_value(self.memory.read(address), (value.lo, value.hi), value.count)
            {
                return false;
            }
        }
        true
    }

    /// Whether a fill holds here, addresses with cells apart.
    fn keeps_fill(&mut self, fill: &Fill, cells: &[Cell]) -> bool {
        for address in fill.first..=fill.last {
            if is_filled(&self.processor.registers, fill.end, address)
                && !has_cell(cells, address)
                && !is_value(self.memory.read(address), (fill.lo, fill.hi), 0)
            {
                return false;
            }
        }
        true
    }

    /// Whether the bytes of all cells are in them.
    fn keeps_cells(&mut self, cells: &[Cell], entered: Entered) -> bool {
        for cell in cells {
            if !is_in(self.memory.read(cell.address), &cell.val, entered) {
                return false;
            }
        }
        true
    }

    /// Whether RAM holds what a state says of it: by its cells, by the facts below its level, and by its fills.
    fn keeps_ram(&mut self, facts: &[Fact], state: &Abs, entered: Entered) -> bool {
        let (cells, summary) = (state.cells(), state.summary());
        if !self.keeps_cells(cells, entered) {
            return false;
        }
        for fact in facts.iter().take(usize::from(summary.level())) {
            if !self.keeps_fact(fact, cells) {
                return false;
            }
        }
        for fill in summary.fills() {
            if !self.keeps_fill(fill, cells) {
                return false;
            }
        }
        true
    }

    /// Whether a state says nothing of the machine that isn't so.
    fn is_meant(&mut self, setting: Setting, mark: u8, facts: &[Fact], state: &Abs) -> bool {
        let entered = self.entered_by(setting, state, mark);
        self.keeps_core(setting, state.core(), entered)
            && self.keeps_stack(setting, state, entered)
            && self.keeps_relations(state.relations(), entered)
            && self.keeps_shadows(&state.summary().shadows())
            && self.keeps_ram(facts, state, entered)
    }

    /// Whether some node of a procedure means it; its claims are counted.
    fn is_meant_in(&mut self, cert: &Cert<'_>, procedure: u16, claims: &mut Claims) -> bool {
        let setting = setting_of(cert, procedure);
        let mark = mark_of(cert, procedure);
        let found = cert.find(procedure, self.processor.pc).found;
        for number in found.first..found.after {
            if number < cert.nodes() {
                let node = cert.node(number);
                let state = node.state();
                if node.bank() == self.bank && self.is_meant(setting, mark, cert.facts(), &state) {
                    claims.add(setting, &state, &self.controller);
                    return true;
                }
            }
        }
        false
    }

    /// Whether some node means it.
    fn is_meant_by(&mut self, cert: &Cert<'_>, claims: &mut Claims) -> bool {
        for procedure in 0..cert.procedures() {
            if self.is_meant_in(cert, procedure, claims) {
                return true;
            }
        }
        false
    }
}

/// How many bytes below its base a procedure puts its stack aside.
fn mark_of(cert: &Cert<'_>, procedure: u16) -> u8 {
    if procedure < cert.procedures() {
        cert.procedure(procedure).mark()
    } else {
        0
    }
}

/// Whether some node of a certificate with these bytes means each of these states. The claims of those nodes are counted.
pub fn is_said(
    alloc: Global,
    states: &mut [ReachedState<'_>],
    bytes: &[u8],
    claims: &mut Claims,
) -> bool {
    let Ok(cert) = Cert::parse(alloc, bytes) else {
        return false;
    };
    for state in states {
        if !state.is_meant_by(&cert, claims) {
            return false;
        }
    }
    true
}
