//! Comparisons the other way round, as compilers write them: `LD A,4` / `SUB A,(HL)` / `JR C`. No rule learns from the carry what the
//! byte is. So where it is asked for, a state arrives at the comparison in two parts: those in which the byte is at most A, and the
//! others. What the comparison will answer, and then the carry, is part of the keys, so that both parts stay apart up to the branch.

use crate::types::Run;
use gb_joining::code_point::CodePoint;
use gb_joining::configuration::TargetPlace;
use gb_joining::gb_domain::interval::{bounds, cut};
use gb_joining::gb_domain::values::interval_of;
use gb_joining::gb_ops::op::{Operand, Register};
use gb_joining::gb_verify::gb_calls::with_cell;
use gb_joining::gb_verify::{Abs, May, States, Val, byte_of, is_ram, read_in, reduced};
use gb_joining::joining::val_of;
use gb_joining::keys::KnownRegisters;
use gb_joining::stop::RunStop;

/// What a known number is compared with.
#[derive(Clone, Copy)]
enum Compared {
    Register(Register),
    /// A byte of RAM.
    Byte(u16),
}

/// A comparison of a known number.
#[derive(Clone, Copy)]
struct Comparison {
    number: u8,
    compared: Compared,
    val: Val,
}

impl Comparison {
    /// Whether the carry may be clear behind it, and whether it may be set.
    fn carry(self) -> May {
        May {
            clear: self.val.lo <= self.number,
            set: self.number < self.val.hi,
        }
    }
}

impl<'a> Run<'a> {
    /// What a state compares at a place, where that is asked for and A is known.
    fn comparison_at(&self, place: TargetPlace, state: &Abs) -> Option<Comparison> {
        let operand = self.configuration.compared.get(&place)?;
        let registers = &state.core().registers;
        let number = registers.a.lo;
        if number != registers.a.hi {
            return None;
        }
        match operand {
            Operand::Register(register) => Some(Comparison {
                number,
                compared: Compared::Register(*register),
                val: registers.get(*register),
            }),
            Operand::AtHl => {
                let (high, low) = (registers.h, registers.l);
                let address = u16::from_be_bytes([high.lo, low.lo]);
                let is_byte = high.lo == high.hi && low.lo == low.hi && is_ram(address);
                if !is_byte || !self.is_fourth() {
                    return None;
                }
                Some(Comparison {
                    number,
                    compared: Compared::Byte(address),
                    val: byte_of(&self.program(), &States::of(state), address),
                })
            }
        }
    }

    /// A state arrives: in two parts where a known number is compared with a byte that may be above it and may not.
    pub(crate) fn arrive_compared(
        &mut self,
        from: usize,
        procedure: usize,
        place: TargetPlace,
        state: &Abs,
    ) -> Result<(), RunStop> {
        if self.configuration.compared.is_empty() {
            return self.arrive_at(from, procedure, place, state);
        }
        match self.comparison_at(place, state) {
            Some(comparison) if comparison.carry().clear && comparison.carry().set => {
                self.arrive_on_both_sides(from, procedure, place, comparison, state)
            }
            _ => self.arrive_at(from, procedure, place, state),
        }
    }

    /// A state arrives in the two parts that a comparison tells apart.
    #[inline(never)]
    fn arrive_on_both_sides(
        &mut self,
        from: usize,
        procedure: usize,
        place: TargetPlace,
        comparison: Comparison,
        state: &Abs,
    ) -> Result<(), RunStop> {
        let above = comparison.number.saturating_add(1);
        let sides = [
            (comparison.val.lo, comparison.number),
            (above, comparison.val.hi),
        ];
        for (lo, hi) in sides {
            let part = match comparison.compared {
                Compared::Register(register) => self.with_bounds(
                    procedure, register, lo, hi, state,
                ),
                Compared::Byte(address) => {
                    self.with_byte(procedure, address, comparison.val, lo, hi, state)
                }
            };
            if let Some(part) = part {
                self.arrive_at(from, procedure, place, &part)?;
            }
        }
        Ok(())
    }

    /// A state in which a byte's values are cut to bounds; none where nothing is meant then.
    fn with_byte(
        &self,
        procedure: usize,
        address: u16,
        val: Val,
        lo: u8,
        hi: u8,
        state: &Abs,
    ) -> Option<Abs> {
        let interval = cut(interval_of(val), bounds(lo, hi))?;
        let mut part = with_cell(self.rules(), state, address, val_of(interval, val.origin));
        let entered = self.pairs_at_entry(procedure);
        let read = read_in(&self.program(), &States::of(&part), &part.relations().pairs);
        let product = reduced(self.rules(), &entered, &read, part.core(), part.relations())?;
        part.set_core(product.core);
        part.set_relations(product.relations);
        Some(part)
    }

    /// The registers that are part of the key, and what a comparison at the place will answer, or has answered right before.
    pub(crate) fn with_answer(
        &self,
        place: TargetPlace,
        state: &Abs,
        registers: KnownRegisters,
    ) -> KnownRegisters {
        if self.configuration.compared.is_empty() {
            return registers;
        }
        if let Some(comparison) = self.comparison_at(place, state) {
            return registers.with_carry(comparison.carry());
        }
        let before = TargetPlace {
            point: CodePoint {
                address: place.point.address.wrapping_sub(1),
                ..place.point
            },
            ..place
        };
        if self.configuration.compared.contains_key(&before) {
            registers.with_carry(state.core().flags.carry)
        } else {
            registers
        }
    }
}
