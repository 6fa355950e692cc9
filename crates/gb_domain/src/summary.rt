//! What a state says that is about the whole program: which facts of the certificate hold, what it has filled, which places shadow
//! the controller's registers, and where SP points while the stack is put aside (abstract interpretation: summaries; own format).
//! States of versions 1 to 3 say nothing of it.

ghost use Rattle.std.specs.Prelude.{◌≡◌, ◌≤◌, length};
ghost use Rattle.gb_domain.specs.Silent.{is_unshadowed, is_silent, is_level_alone, level_alone};
ghost use Rattle.gb_domain.specs.Summaries.{no_shadows, no_bank_shadows, no_summary, zero_fill};

use crate::interval::StridedInterval;
use crate::pairs::Bounds;
use crate::places::{NO_REGISTER, is_some_register};
use arrayvec::ArrayVec;
use gb_ops::op::Pointer;
use gb_ops::registers::Registers;
use std::marker::Model;

/// The bytes at `first`, `first` + `step` and so on to `last` have one of these values each, cells apart.
#[derive(Clone, Copy)]
pub struct Fact {
    pub first: u16,
    pub last: u16,
    /// Of 0 there is no address.
    pub step: u8,
    pub value: StridedInterval,
}

/// On which side of its end a fill is.
#[derive(Clone, Copy)]
pub enum Reach {
    Below,
    Above,
}

/// An end that is a pointer plus a distance.
#[derive(Clone, Copy)]
pub struct FillEnd {
    pub pointer: Pointer,
    pub reach: Reach,
    /// The distance in offset binary: 32,768 more than it is.
    pub offset: u16,
}

/// The bytes from `first` to `last` are from `lo` to `hi`, cells apart; where there is an end, those on its side alone.
#[derive(Clone, Copy)]
pub struct Fill {
    pub first: u16,
    pub last: u16,
    pub lo: u8,
    pub hi: u8,
    pub end: Option<FillEnd>,
}

impl Default for Fill {
    ghost is_default = { λ fill. fill ≡ zero_fill };

    /// Zero at address 0.
    fn default() -> Fill {
        Fill {
            first: 0,
            last: 0,
            lo: 0,
            hi: 0,
            end: None,
        }
    }
}

/// Places that each shadow one register of the controller: registers, and an address of RAM outside the stack region.
#[derive(Clone, Copy)]
pub struct Shadows {
    pub registers: Registers<bool>,
    pub address: Option<u16>,
}

impl Default for Shadows {
    ghost is_default = { λ shadows. shadows ≡ no_shadows };

    /// No place.
    fn default() -> Shadows {
        Shadows {
            registers: NO_REGISTER,
            address: None,
        }
    }
}

/// Whether there is no place.
pub fn is_unshadowed(shadows: &Shadows) -> bool
    ensures { result ≡ is_unshadowed shadows.now }
{
    shadows.address.is_none() && !is_some_register(&shadows.registers)
}

/// Of each of the controller's two windows, the places that shadow its register.
#[derive(Clone, Copy)]
pub struct BankShadows {
    pub first: Shadows,
    pub second: Shadows,
}

impl Default for BankShadows {
    ghost is_default = { λ shadows. shadows ≡ no_bank_shadows };

    /// No place.
    fn default() -> BankShadows {
        BankShadows {
            first: Shadows::default(),
            second: Shadows::default(),
        }
    }
}

/// What a state says that is about the whole program. Contracts see its level, fills, shadows, and where SP is put aside.
#[derive(Drop)]
pub struct Summary {
    level: u16,
    fills: ArrayVec<Fill, 8>,
    shadows: BankShadows,
    aside: Option<Bounds>,
}

impl Model for Summary {
    ghost use Rattle.gb_domain.specs.Summaries.{SummaryParts};

    ghost Value = { SummaryParts };

    ghost view = { λ s. record { level = s.level; fills = s.fills.items; shadows = s.shadows; aside = s.aside } };
}

impl Summary {
    /// Nothing is said.
    pub fn none() -> Summary
        ensures { result ≡ no_summary }
    {
        Summary {
            level: 0,
            fills: ArrayVec::new(),
            shadows: BankShadows::default(),
            aside: None,
        }
    }

    /// These parts.
    pub fn of_parts(
        level: u16,
        fills: ArrayVec<Fill, 8>,
        shadows: BankShadows,
        aside: Option<Bounds>,
    ) -> Summary
        ensures { result ≡ record { level = level; fills = fills.items; shadows = shadows; aside = aside } }
    {
        Summary {
            level,
            fills,
            shadows,
            aside,
        }
    }

    /// How many of the certificate's facts hold, from the first one on.
    pub fn level(&self) -> u16
        ensures { result ≡ self.now.level }
    {
        self.level
    }

    pub fn fills(&self) -> &[Fill]
        ensures fills { result.now ≡ self.now.fills }
        ensures few { length self.now.fills ≤ 8 }
    {
        self.fills.as_slice()
    }

    pub fn shadows(&self) -> BankShadows
        ensures { result ≡ self.now.shadows }
    {
        self.shadows
    }

    /// Where SP points while the stack is put aside; none while it isn't.
    pub fn aside(&self) -> Option<Bounds>
        ensures { result ≡ self.now.aside }
    {
        self.aside
    }

    /// Whether nothing is said.
    pub fn is_silent(&self) -> bool
        ensures { result ≡ is_silent self.now }
    {
        self.level == 0
            && self.fills.as_slice().len() == 0
            && is_unshadowed(&self.shadows.first)
            && is_unshadowed(&self.shadows.second)
            && self.aside.is_none()
    }

    /// Whether nothing is said but how many facts hold.
    #[inline(always)]
    pub fn is_level_alone(&self) -> bool
        ensures { result ≡ is_level_alone self.now }
    {
        self.fills.as_slice().len() == 0
            && is_unshadowed(&self.shadows.first)
            && is_unshadowed(&self.shadows.second)
            && self.aside.is_none()
    }

    /// That so many facts hold, and nothing else.
    #[inline(always)]
    pub fn of_level(level: u16) -> Summary
        ensures { result ≡ level_alone level }
    {
        Summary {
            level,
            fills: ArrayVec::new(),
            shadows: BankShadows::default(),
            aside: None,
        }
    }

    /// A copy: a summary owns a list, and no list is copied unseen.
    pub fn copied(&self) -> Summary
        ensures { result ≡ self.now }
    {
        let mut summary = Summary::none();
        summary.level = self.level;
        summary.shadows = self.shadows;
        summary.aside = self.aside;
        if summary
            .fills
            .try_extend_from_slice(self.fills.as_slice())
            .is_err()
        {
            unreachable!();
        }
        summary
    }

    /// It says nothing any more.
    #[inline(always)]
    pub fn clear(&mut self)
        ensures { self.new ≡ no_summary }
    {
        self.level = 0;
        self.fills.clear();
        self.shadows = BankShadows::default();
        self.aside = None;
    }
}
