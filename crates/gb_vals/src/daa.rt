//! DAA on intervals.

ghost use Rattle.std.specs.Prelude.{◌≡◌};
ghost use Rattle.gb_ops.specs.Arithmetic as machine;
ghost use Rattle.gb_domain.specs.Rules.{IsVal, IsFlg};
ghost use Rattle.gb_vals.specs.Meaning.{IsSound, IsOutcome, IsComputed};
ghost use Rattle.gb_vals.specs.Daa as Daa;

use crate::flags::{either, greatest_flags, is_known, known};
use crate::outcome::{AbsComputed, exact};
use crate::vals::{any, is_single};
use gb_domain::types::{Flg, Val};
use gb_effects::arithmetic::adjusted;

/// Whether all the flags that DAA reads are known.
fn are_read_known(flags: Flg) -> bool
    ensures { result ≡ Daa.are_read_known flags }
{
    is_known(flags.subtract) && is_known(flags.half_carry) && is_known(flags.carry)
}

/// DAA where A or a flag that it reads isn't known.
fn adjusted_any(flags: Flg) -> AbsComputed
    ensures { result ≡ Daa.adjusted_any flags }
{
    AbsComputed {
        val: any(),
        flags: Flg {
            zero: either(),
            subtract: flags.subtract,
            half_carry: known(false),
            carry: either(),
            is_own: false,
        },
    }
}

/// DAA: any byte, Z and carry, unless A, N, H and the carry are known. N stays.
#[tactic(auto, using(crate::proofs::DaaLaws::adjust_sound, crate::proofs::DaaLaws::adjust_inhabited, crate::proofs::OriginLaws::adjust_computed), unfolding(crate::specs::Daa::adjustment_of))]
pub fn adjust(a: Val, flags: Flg) -> AbsComputed
    ensures exact { result ≡ Daa.adjustment_of a flags }
    ensures sound { IsSound machine.adjusted a flags result }
    ensures inhabited { IsVal a → IsFlg flags → IsOutcome result }
    ensures computed { IsComputed result }
{
    if is_single(a) && are_read_known(flags) {
        exact(adjusted(a.lo, greatest_flags(flags)))
    } else {
        adjusted_any(flags)
    }
}
