//! Where items stand and SP points, where the base is known.

ghost use Rattle.std.specs.Prelude.{◌≡◌, IfSome};
ghost use Rattle.gb_abs.specs.Located as Located;
ghost use Rattle.gb_abs.specs.Operations.{with_core};

use gb_domain::pairs::{ANY_BOUNDS, Bounds};
use gb_domain::types::{Abs, Core, Halves, Rules, Setting, Val};
use gb_vals::vals::{any, single};

/// The address above the items, where addresses can be reckoned from it.
#[tactic(auto, unfolding(crate::specs::Located::stack_base))]
pub fn stack_base(setting: Setting, core: &Core) -> Option<u16>
    ensures { result ≡ Located.stack_base setting core.now }
{
    match setting.rules {
        Rules::Simple => None,
        Rules::Extended => {
            if core.stack_set {
                setting.known_base()
            } else {
                None
            }
        }
    }
}

#[tactic(auto, unfolding(crate::specs::Located::item_at))]
fn item_or_none(setting: Setting, core: &Core, state: &Abs, address: u16) -> Option<Val>
    ensures { result ≡ Located.item_at setting (with_core state.now core.now) address }
{
    match stack_base(setting, core) {
        None => None,
        Some(base) => {
            if address < base {
                state.items().get((base - 1 - address) as usize).copied()
            } else {
                None
            }
        }
    }
}

/// The item that stands at an address, in states with another core.
#[tactic(auto, using(crate::proofs::LocatedLaws::item_sound))]
pub fn item_at(setting: Setting, core: &Core, state: &Abs, address: u16) -> Option<Val>
    ensures exact { result ≡ Located.item_at setting (with_core state.now core.now) address }
    ensures sound { IfSome result (λ v. Located.IsSoundItem setting (with_core state.now core.now) address v) }
{
    item_or_none(setting, core, state, address)
}

/// SP as a pair, which lies within bounds: known where that is one address.
fn halves_within(bounds: Bounds) -> Halves
    ensures { result ≡ Located.halves_within bounds }
{
    if bounds.first == bounds.last {
        Halves {
            high: single((bounds.first / 256) as u8),
            low: single((bounds.first % 256) as u8),
        }
    } else {
        Halves {
            high: any(),
            low: any(),
        }
    }
}

/// SP as a pair, where it isn't put aside.
fn halves_by(base: Option<u16>, count: u8) -> Halves
    ensures { result ≡ Located.halves_by base count }
{
    match base {
        None => Halves {
            high: any(),
            low: any(),
        },
        Some(base) => {
            let sp = base.saturating_sub(u16::from(count));
            Halves {
                high: single((sp / 256) as u8),
                low: single((sp % 256) as u8),
            }
        }
    }
}

#[tactic(auto, unfolding(crate::specs::Located::sp_halves))]
fn halves_of_sp(setting: Setting, state: &Abs) -> Halves
    ensures { result ≡ Located.sp_halves setting state.now }
{
    match state.summary().aside() {
        None => halves_by(stack_base(setting, state.core()), state.items().len() as u8),
        Some(bounds) => halves_within(bounds),
    }
}

/// SP as a pair: known where the base is and SP is where the items end, or where it is put aside at one address.
#[tactic(auto, using(crate::proofs::LocatedLaws::halves_sound))]
pub fn sp_halves(setting: Setting, state: &Abs) -> Halves
    ensures exact { result ≡ Located.sp_halves setting state.now }
    ensures sound { Located.IsSoundSp setting state.now result }
{
    halves_of_sp(setting, state)
}

/// The bounds of SP, where it isn't put aside.
fn bounds_by(base: Option<u16>, count: u8) -> Bounds
    ensures { result ≡ Located.bounds_by base count }
{
    match base {
        None => ANY_BOUNDS,
        Some(base) => {
            let sp = base.saturating_sub(u16::from(count));
            Bounds {
                first: sp,
                last: sp,
            }
        }
    }
}

#[tactic(auto, unfolding(crate::specs::Located::sp_bounds))]
fn bounds_of_sp(setting: Setting, state: &Abs) -> Bounds
    ensures { result ≡ Located.sp_bounds setting state.now }
{
    match state.summary().aside() {
        None => bounds_by(stack_base(setting, state.core()), state.items().len() as u8),
        Some(bounds) => bounds,
    }
}

/// The bounds of SP.
#[tactic(auto, using(crate::proofs::LocatedLaws::bounds_sound))]
pub fn sp_bounds(setting: Setting, state: &Abs) -> Bounds
    ensures exact { result ≡ Located.sp_bounds setting state.now }
    ensures sound { Located.IsSoundSpBounds setting state.now result }
{
    bounds_of_sp(setting, state)
}
