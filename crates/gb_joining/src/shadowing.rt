//! What two states both say of the whole program: which places shadow the registers of the controller.

use crate::basis::Basis;
use crate::register_set::REGISTERS;
use arrayvec::ArrayVec;
use gb_verify::gb_domain::summary::{BankShadows, Shadows, Summary};
use gb_verify::{Abs, States, covers_said};

/// One of the controller's windows.
#[derive(Clone, Copy)]
enum ShadowedWindow {
    First,
    Second,
}

impl ShadowedWindow {
    /// The places that shadow its register in a state.
    fn shadows_in(self, state: &Abs) -> Shadows {
        let shadows = state.summary().shadows();
        match self {
            ShadowedWindow::First => shadows.first,
            ShadowedWindow::Second => shadows.second,
        }
    }

    /// What a state says in which these places shadow its register.
    fn summary_of(self, places: Shadows) -> Summary {
        let none = BankShadows::default();
        let shadows = match self {
            ShadowedWindow::First => BankShadows {
                first: places,
                ..none
            },
            ShadowedWindow::Second => BankShadows {
                second: places,
                ..none
            },
        };
        Summary::of_parts(0, ArrayVec::new(), shadows, None)
    }

    /// Whether places shadow its register in a state: they do so there, or their bytes are known and leave what the register holds.
    fn is_shadowed(self, basis: &Basis<'_>, state: &Abs, places: Shadows) -> bool {
        let summary = self.summary_of(places);
        covers_said(&basis.program, &States::of(state), &[], &summary)
    }

    /// The address of one state that shadows its register in another one too.
    fn address_in(self, basis: &Basis<'_>, address: Option<u16>, other: &Abs) -> Option<u16> {
        let places = Shadows {
            address,
            ..Shadows::default()
        };
        if self.is_shadowed(basis, other, places) {
            address
        } else {
            None
        }
    }

    /// The places that shadow its register in both states.
    fn join(self, basis: &Basis<'_>, a: &Abs, b: &Abs) -> Shadows {
        let (of_a, of_b) = (self.shadows_in(a), self.shadows_in(b));
        let mut both = Shadows::default();
        for register in REGISTERS {
            if of_a.registers.get(register) || of_b.registers.get(register) {
                let mut place = Shadows::default();
                place.registers.set(register, true);
                let is_shadow = self.is_shadowed(basis, a, place)
                    && self.is_shadowed(basis, b, place);
                both.registers.set(register, is_shadow);
            }
        }
        let address = self.address_in(basis, of_a.address, b);
        both.address = address.or(self.address_in(basis, of_b.address, a));
        both
    }
}

/// What both states say of the whole program, where both put the stack aside alike.
pub fn join_summaries(basis: &Basis<'_>, a: &Abs, b: &Abs) -> Summary {
    if a.summary().is_silent() && b.summary().is_silent() {
        return Summary::none();
    }
    let shadows = BankShadows {
        first: ShadowedWindow::First.join(basis, a, b),
        second: ShadowedWindow::Second.join(basis, a, b),
    };
    let level = a.summary().level().min(b.summary().level());
    Summary::of_parts(level, ArrayVec::new(), shadows, a.summary().aside())
}

/// Whether an address of RAM shadows the register of the controller's first window.
pub fn is_bank_shadowed(state: &Abs) -> bool {
    state.summary().shadows().first.address.is_some()
}
