//! Single bits of intervals: BIT, RES and SET, and whether a value may have a bit.

ghost use Rattle.std.specs.Prelude.{◌≡◌, ◌<◌, true, false};
ghost use Rattle.gb_ops.specs.Arithmetic as machine;
ghost use Rattle.gb_domain.specs.Rules.{IsVal, IsFlg};
ghost use Rattle.gb_vals.specs.Meaning.{IsSoundOfVal, IsSoundOfTest, IsSoundAnswer, HasOne};
ghost use Rattle.gb_vals.specs.Bits as Bits;

use crate::flags::{either, greatest_flags, known, known_flags};
use crate::vals::{between, is_single, single};
use gb_domain::types::{Flg, May, Val};
use gb_effects::arithmetic::{bit_reset, bit_set, bit_tested};

/// The flags that BIT leaves of a byte that isn't known.
fn tested_any(carry: May) -> Flg
    ensures { result ≡ Bits.tested_any carry }
{
    Flg {
        zero: either(),
        subtract: known(false),
        half_carry: known(true),
        carry,
        is_own: false,
    }
}

/// BIT: Z is known of a known byte alone; the carry stays. Of `n` the low three bits count.
#[tactic(auto, using(crate::proofs::BitLaws::test_bit_sound, crate::proofs::BitLaws::test_bit_inhabited, crate::proofs::OriginLaws::test_bit_written), unfolding(crate::specs::Bits::test_bit))]
pub fn test_bit(n: u8, val: Val, flags: Flg) -> Flg
    ensures exact { result ≡ Bits.test_bit n val flags }
    ensures sound { IsSoundOfTest (machine.bit_tested n) val flags result }
    ensures inhabited { IsVal val → IsFlg flags → IsFlg result }
    ensures written { result.is_own ≡ false }
{
    if is_single(val) {
        Flg {
            carry: flags.carry,
            ..known_flags(bit_tested(n, val.lo, greatest_flags(flags)))
        }
    } else {
        tested_any(flags.carry)
    }
}

/// RES: from 0, where the byte isn't known. Of `n` the low three bits count.
#[tactic(auto, using(crate::proofs::BitLaws::reset_bit_sound, crate::proofs::BitLaws::reset_bit_inhabited, crate::proofs::OriginLaws::reset_bit_computed), unfolding(crate::specs::Bits::reset_bit))]
pub fn reset_bit(n: u8, val: Val) -> Val
    ensures exact { result ≡ Bits.reset_bit n val }
    ensures sound { IsSoundOfVal (machine.bit_reset n) val result }
    ensures inhabited { IsVal val → IsVal result }
    ensures computed { result.origin ≡ None }
{
    if is_single(val) {
        single(bit_reset(n, val.lo))
    } else {
        between(0, val.hi)
    }
}

/// SET: up to FF, where the byte isn't known. Of `n` the low three bits count.
#[tactic(auto, using(crate::proofs::BitLaws::set_bit_sound, crate::proofs::BitLaws::set_bit_inhabited, crate::proofs::OriginLaws::set_bit_computed), unfolding(crate::specs::Bits::set_bit))]
pub fn set_bit(n: u8, val: Val) -> Val
    ensures exact { result ≡ Bits.set_bit n val }
    ensures sound { IsSoundOfVal (machine.bit_set n) val result }
    ensures inhabited { IsVal val → IsVal result }
    ensures computed { result.origin ≡ None }
{
    if is_single(val) {
        single(bit_set(n, val.lo))
    } else {
        between(val.lo, 255)
    }
}

fn has_bit(bit: u8, value: u8) -> bool
    requires { bit < 8 }
    ensures { result ≡ Bits.has_bit bit value }
{
    (value >> bit) % 2 == 1
}

#[tactic(auto, unfolding(crate::specs::Bits::may_have_bit))]
fn any_has_bit(val: &Val, bit: u8) -> bool
    requires { bit < 8 }
    ensures { result ≡ Bits.may_have_bit val.now bit }
{
    has_bit(bit, val.lo) || has_bit(bit, val.hi) || (val.lo >> bit) / 2 < (val.hi >> bit) / 2
}

/// Whether a value may have bit 0 to 7: whether one within the bounds has it.
#[tactic(auto, using(crate::proofs::BitLaws::may_have_bit_sound, crate::proofs::BitLaws::may_have_bit_complete))]
pub fn may_have_bit(val: &Val, bit: u8) -> bool
    requires { bit < 8 }
    ensures exact { result ≡ Bits.may_have_bit val.now bit }
    ensures sound { IsSoundAnswer (Bits.has_bit bit) val.now result }
    ensures complete { result ≡ true → IsVal val.now → HasOne (Bits.has_bit bit) val.now }
{
    any_has_bit(val, bit)
}

/// Whether IE, within these bounds, may enable one of the five interrupts (Interrupts: bits 0 to 4).
#[tactic(auto, using(crate::proofs::BitLaws::may_enable_sound, crate::proofs::BitLaws::may_enable_complete), unfolding(crate::specs::Bits::may_enable))]
pub fn may_enable(val: &Val) -> bool
    ensures exact { result ≡ Bits.may_enable val.now }
    ensures sound { IsSoundAnswer Bits.enables val.now result }
    ensures complete { result ≡ true → IsVal val.now → HasOne Bits.enables val.now }
{
    val.lo < val.hi || val.lo % 32 != 0
}
