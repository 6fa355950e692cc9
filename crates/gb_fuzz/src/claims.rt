//! What kinds of claims were compared with the machine, and how many of each.

use crate::values::is_known;
use gb_domain::types::{Abs, Setting};
use gb_domain::{Core, Ctl, Origin, PairFacts, Shadows, Val};
use gb_mbc::Controller;
use gb_ops::registers::Registers;

/// How many kinds there are.
pub const KINDS: usize = 14;

/// How many claims of each kind the nodes made that meant a reached state.
#[derive(Clone, Copy)]
pub struct Claims {
    /// Bytes of the stack that aren't any byte.
    items: u64,
    /// Where SP is while the stack is put aside.
    asides: u64,
    /// Bounds of 16 bits of a pair.
    pairs: u64,
    links: u64,
    /// Places of the one byte, but for the first.
    copies: u64,
    /// What the flags say of the one byte.
    tests: u64,
    /// What Z says of a pair.
    zeros: u64,
    first_places: u64,
    second_places: u64,
    /// Bounds of the controller's registers that leave a number out.
    banks: u64,
    seconds: u64,
    /// Bounds of MBC5's bank with both values of its ninth bit, but not with all of its low eight bits.
    bank_parts: u64,
    /// Registers that hold what main was entered with.
    origins: u64,
    /// Registers that hold a byte of the mark's address.
    marks: u64,
}

/// How many of these are so.
fn count(are_so: &[bool]) -> u64 {
    are_so.iter().filter(|is_so| **is_so).count() as u64
}

fn places_in(registers: &Registers<bool>, address: Option<u16>) -> u64 {
    count(&[
        registers.a,
        registers.b,
        registers.c,
        registers.d,
        registers.e,
        registers.h,
        registers.l,
        address.is_some(),
    ])
}

fn shadows_in(shadows: &Shadows) -> u64 {
    places_in(&shadows.registers, shadows.address)
}

fn is_bounded(facts: &PairFacts) -> bool {
    facts.bounds.first > 0 || facts.bounds.last < 0xFFFF
}

fn has_parts(ctl: &Ctl) -> bool {
    ctl.bank_lo / 256 != ctl.bank_hi / 256 && (ctl.bank_lo % 256 != 0 || ctl.bank_hi % 256 != 0xFF)
}

fn origins_in(core: &Core) -> u64 {
    let registers = &core.registers;
    count(&[
        registers.a.origin.is_some(),
        registers.b.origin.is_some(),
        registers.c.origin.is_some(),
        registers.d.origin.is_some(),
        registers.e.origin.is_some(),
        registers.h.origin.is_some(),
        registers.l.origin.is_some(),
        core.flags.is_own,
    ])
}

fn is_of_mark(val: Val) -> bool {
    matches!(val.origin, Some(Origin::MarkHigh) | Some(Origin::MarkLow))
}

fn marks_in(core: &Core) -> u64 {
    let registers = &core.registers;
    count(&[
        is_of_mark(registers.a),
        is_of_mark(registers.h),
        is_of_mark(registers.l),
    ])
}

impl Claims {
    pub fn new() -> Claims {
        Claims {
            items: 0,
            asides: 0,
            pairs: 0,
            links: 0,
            copies: 0,
            tests: 0,
            zeros: 0,
            first_places: 0,
            second_places: 0,
            banks: 0,
            seconds: 0,
            bank_parts: 0,
            origins: 0,
            marks: 0,
        }
    }

    /// Those of a state about the stack, about several parts together, and in main about the entry.
    fn of_state(setting: Setting, state: &Abs) -> Claims {
        let (one, zero) = (&state.relations().byte, state.relations().zero);
        let pairs = &state.relations().pairs;
        Claims {
            items: state.items().iter().filter(|item| is_known(*item)).count() as u64,
            asides: count(&[state.summary().aside().is_some()]),
            pairs: count(&[
                is_bounded(&pairs.bc),
                is_bounded(&pairs.de),
                is_bounded(&pairs.hl),
            ]),
            links: count(&[
                pairs.bc.link.is_some(),
                pairs.de.link.is_some(),
                pairs.hl.link.is_some(),
            ]),
            copies: places_in(&one.registers, one.address).saturating_sub(1),
            tests: count(&[one.test.is_some()]),
            zeros: count(&[zero.is_some()]),
            origins: if setting.is_main {
                origins_in(state.core())
            } else {
                0
            },
            marks: marks_in(state.core()),
            ..Claims::new()
        }
    }

    /// Those of a state about a controller. Of one that isn't there nothing is claimed.
    fn of_controller(setting: Setting, state: &Abs, controller: &Controller) -> Claims {
        let (ctl, shadows) = (&state.core().ctl, state.summary().shadows());
        let is_mbc5 = matches!(controller, Controller::Mbc5(_));
        if matches!(controller, Controller::Flat(_)) {
            return Claims::new();
        }
        Claims {
            first_places: shadows_in(&shadows.first),
            second_places: shadows_in(&shadows.second),
            banks: count(&[ctl.bank_lo > 0 || ctl.bank_hi < 511]),
            seconds: count(&[ctl.second_lo > 0 || ctl.second_hi < 0xFF]),
            bank_parts: count(&[setting.is_whole && is_mbc5 && has_parts(ctl)]),
            ..Claims::new()
        }
    }

    /// Both together.
    pub fn joined(&self, other: &Claims) -> Claims {
        Claims {
            items: self.items.wrapping_add(other.items),
            asides: self.asides.wrapping_add(other.asides),
            pairs: self.pairs.wrapping_add(other.pairs),
            links: self.links.wrapping_add(other.links),
            copies: self.copies.wrapping_add(other.copies),
            tests: self.tests.wrapping_add(other.tests),
            zeros: self.zeros.wrapping_add(other.zeros),
            first_places: self.first_places.wrapping_add(other.first_places),
            second_places: self.second_places.wrapping_add(other.second_places),
            banks: self.banks.wrapping_add(other.banks),
            seconds: self.seconds.wrapping_add(other.seconds),
            bank_parts: self.bank_parts.wrapping_add(other.bank_parts),
            origins: self.origins.wrapping_add(other.origins),
            marks: self.marks.wrapping_add(other.marks),
        }
    }

    /// Adds the claims of a state, in a cartridge with this controller.
    pub fn add(&mut self, setting: Setting, state: &Abs, controller: &Controller) {
        *self = self
            .joined(&Claims::of_state(setting, state))
            .joined(&Claims::of_controller(setting, state, controller));
    }

    /// Each kind's name and number.
    pub fn named(&self) -> [(&'static str, u64); KINDS] {
        [
            ("items", self.items),
            ("SP put aside", self.asides),
            ("bounds of pairs", self.pairs),
            ("links", self.links),
            ("copies of one byte", self.copies),
            ("tests", self.tests),
            ("zeros", self.zeros),
            ("places of the first window", self.first_places),
            ("places of the second window", self.second_places),
            ("the bank", self.banks),
            ("the second register", self.seconds),
            ("MBC5's bank in two parts", self.bank_parts),
            ("origins in main", self.origins),
            ("bytes of a mark", self.marks),
        ]
    }
}
