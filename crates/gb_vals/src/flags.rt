//! Sets of flags, and F as a byte.

ghost use Rattle.std.specs.Prelude.{◌≡◌, ℕ};
ghost use Rattle.gb_ops.specs.Flags.{flags_byte, flags_of};
ghost use Rattle.gb_domain.specs.Rules.{IsVal, IsFlg};
ghost use Rattle.gb_vals.specs.Meaning.{In, FlagsIn};
ghost use Rattle.gb_vals.specs.Flags as Sets;

use crate::vals::is_single;
use gb_domain::types::{Flg, May, Origin, Val};
use gb_effects::flags::{flags_byte, flags_of};
use gb_ops::registers::Flags;

/// A bit that is known.
pub fn known(bit: bool) -> May
    ensures { result ≡ Sets.known bit }
{
    May {
        clear: !bit,
        set: bit,
    }
}

/// A bit that may be clear or set.
pub fn either() -> May
    ensures { result ≡ Sets.either }
{
    May {
        clear: true,
        set: true,
    }
}

/// Whether a bit is known.
pub(crate) fn is_known(may: May) -> bool
    ensures { result ≡ Sets.is_known may }
{
    if may.clear { !may.set } else { may.set }
}

/// Z by the bounds of a result.
pub(crate) fn zero_by(val: Val) -> May
    ensures { result ≡ Sets.zero_by val }
{
    May {
        clear: val.hi != 0,
        set: val.lo == 0,
    }
}

/// Flags that are all known, no copy of F as the procedure was entered.
pub fn known_flags(flags: Flags) -> Flg
    ensures { result ≡ Sets.known_flags flags }
{
    Flg {
        zero: known(flags.zero),
        subtract: known(flags.subtract),
        half_carry: known(flags.half_carry),
        carry: known(flags.carry),
        is_own: false,
    }
}

/// The flags, each set where it may be.
pub fn greatest_flags(flags: Flg) -> Flags
    ensures { result ≡ Sets.greatest_flags flags }
{
    Flags {
        zero: flags.zero.set,
        subtract: flags.subtract.set,
        half_carry: flags.half_carry.set,
        carry: flags.carry.set,
    }
}

/// The flags, each clear where it may be.
fn least_flags(flags: Flg) -> Flags
    ensures { result ≡ Sets.least_flags flags }
{
    Flags {
        zero: !flags.zero.clear,
        subtract: !flags.subtract.clear,
        half_carry: !flags.half_carry.clear,
        carry: !flags.carry.clear,
    }
}

fn own_origin(is_own: bool) -> Option<Origin>
    ensures { result ≡ Sets.own_origin is_own }
{
    if is_own { Some(Origin::F) } else { None }
}

fn is_own_origin(origin: Option<Origin>) -> bool
    ensures { result ≡ Sets.is_own_origin origin }
{
    matches!(origin, Some(Origin::F))
}

fn any_flags(is_own: bool) -> Flg
    ensures { result ≡ Sets.any_flags is_own }
{
    Flg {
        zero: either(),
        subtract: either(),
        half_carry: either(),
        carry: either(),
        is_own,
    }
}

#[tactic(auto, unfolding(crate::specs::Flags::flags_val))]
fn least_to_greatest(flags: Flg) -> Val
    ensures { result ≡ Sets.flags_val flags }
{
    Val {
        lo: flags_byte(least_flags(flags)),
        hi: flags_byte(greatest_flags(flags)),
        low_bits: 0,
        origin: own_origin(flags.is_own),
    }
}

/// PUSH AF: F as a byte, from its least to its greatest; a copy of F where F is its own.
#[tactic(auto, using(crate::proofs::FlagLaws::flags_val_kept))]
pub fn flags_val(flags: Flg) -> Val
    ensures exact { result ≡ Sets.flags_val flags }
    ensures sound { (x : Flags) → FlagsIn flags x → In result (flags_byte x) }
    ensures inhabited { IsFlg flags → IsVal result }
    ensures kept { result.origin ≡ Sets.own_origin flags.is_own }
{
    least_to_greatest(flags)
}

/// POP AF: the flags of a known byte, its low four bits dropped; of another byte, any flags. F is
/// its own where the byte was a copy of F.
#[tactic(auto, using(crate::proofs::FlagLaws::flags_of_val_sound, crate::proofs::FlagLaws::flags_of_val_inhabited), unfolding(crate::specs::Flags::flags_of_val))]
pub fn flags_of_val(val: Val) -> Flg
    ensures exact { result ≡ Sets.flags_of_val val }
    ensures sound { (x : ℕ) → In val x → FlagsIn result (flags_of x) }
    ensures inhabited { IsVal val → IsFlg result }
    ensures kept { result.is_own ≡ Sets.is_own_origin val.origin }
{
    let is_own = is_own_origin(val.origin);
    if is_single(val) {
        Flg {
            is_own,
            ..known_flags(flags_of(val.lo))
        }
    } else {
        any_flags(is_own)
    }
}
