//! SCF and CCF on sets of flags.

ghost use Rattle.std.specs.Prelude.{◌≡◌, false};
ghost use Rattle.gb_domain.specs.Rules.{IsFlg};
ghost use Rattle.gb_vals.specs.Meaning.{IsSoundOfFlags};
ghost use Rattle.gb_vals.specs.Carry as Carry;

use crate::flags::{either, is_known, known};
use gb_domain::types::{Flg, May};

fn with_carry(carry: May, flags: Flg) -> Flg
    ensures { result ≡ Carry.with_carry carry flags }
{
    Flg {
        subtract: known(false),
        half_carry: known(false),
        carry,
        is_own: false,
        ..flags
    }
}

/// SCF; Z stays.
#[tactic(auto, using(crate::proofs::CarryLaws::set_carry_sound, crate::proofs::CarryLaws::set_carry_inhabited), unfolding(crate::specs::Carry::set_carry))]
pub fn set_carry(flags: Flg) -> Flg
    ensures exact { result ≡ Carry.set_carry flags }
    ensures sound { IsSoundOfFlags Carry.set_carry_result flags result }
    ensures inhabited { IsFlg flags → IsFlg result }
    ensures written { result.is_own ≡ false }
{
    with_carry(known(true), flags)
}

/// CCF: a known carry is turned over; Z stays.
#[tactic(auto, using(crate::proofs::CarryLaws::complement_carry_sound, crate::proofs::CarryLaws::complement_carry_inhabited), unfolding(crate::specs::Carry::complement_carry))]
pub fn complement_carry(flags: Flg) -> Flg
    ensures exact { result ≡ Carry.complement_carry flags }
    ensures sound { IsSoundOfFlags Carry.complement_carry_result flags result }
    ensures inhabited { IsFlg flags → IsFlg result }
    ensures written { result.is_own ≡ false }
{
    let carry = if is_known(flags.carry) {
        known(!flags.carry.set)
    } else {
        either()
    };
    with_carry(carry, flags)
}
