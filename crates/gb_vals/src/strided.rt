//! Operations whose results are cut to the low bits that are left (abstract interpretation: strided intervals, the reduced
//! product of intervals and congruences). Each is the plain operation of `alu`, `sums`, `logic`, `shifts` or `bits`, and of its
//! value those bytes alone are kept whose low bits `low_sums`, `low_logic` or `low_shifts` allow. Copies aren't cut, and the flags
//! are the plain ones.

ghost use Rattle.std.specs.Prelude.{◌≡◌, ℕ, false};
ghost use Rattle.gb_ops.specs.Arithmetic as machine;
ghost use Rattle.gb_domain.specs.Meaning.{Has};
ghost use Rattle.gb_domain.specs.Rules.{IsVal, IsFlg};
ghost use Rattle.gb_vals.specs.Meaning.{In, IsSound, IsSoundOfTwo, IsSoundOfVal, IsOutcome, IsComputed};
ghost use Rattle.gb_vals.specs.Alu as Alu;
ghost use Rattle.gb_vals.specs.Logic as Logic;
ghost use Rattle.gb_vals.specs.Shifts as Shifts;
ghost use Rattle.gb_vals.specs.Congruence.{with_digits_swapped};
ghost use Rattle.gb_vals.specs.Strided as Strided;

use crate::flags::is_known;
use crate::outcome::AbsComputed;
use crate::vals::between;
use crate::{
    alu as plain_alu, bits as plain_bits, logic as plain_logic, low_logic, low_shifts, low_sums,
    shifts as plain_shifts, sums as plain_sums,
};
use gb_domain::interval::{StridedInterval, low_bits_of, with_low_bits};
use gb_domain::low_bits::LowBits;
use gb_domain::types::{Flg, May, Val};
use gb_domain::values::interval_of;
use gb_ops::op::{AluOp, Shift};

// ---- cutting

/// The low bits that all values have: of a single one all eight.
pub fn low_of(val: Val) -> LowBits
    ensures { result ≡ Strided.low_of val }
{
    low_bits_of(interval_of(val))
}

/// A value of which these bytes are left; all of it where none is.
pub fn left_of(val: Val, left: Option<StridedInterval>) -> Val
    ensures { result ≡ Strided.left_of val left }
{
    match left {
        None => val,
        Some(left) => Val {
            lo: left.lo,
            hi: left.hi,
            low_bits: left.count,
            origin: val.origin,
        },
    }
}

#[tactic(auto, unfolding(crate::specs::Strided::cut_to))]
fn least_to_greatest(known: LowBits, val: Val) -> Val
    ensures { result ≡ Strided.cut_to known val }
{
    left_of(val, with_low_bits(val.lo, val.hi, known))
}

/// A computed value cut to low bits. Where none of its bytes has them, it stays as it is.
pub fn cut_to(known: LowBits, val: Val) -> Val
    ensures exact { result ≡ Strided.cut_to known val }
    ensures keeps { (x : ℕ) → In val x → Has known x → In result x }
    ensures inhabited { IsVal val → IsVal result }
    ensures kept { result.origin ≡ val.origin }
{
    least_to_greatest(known, val)
}

fn with_val(val: Val, outcome: AbsComputed) -> AbsComputed
    ensures { result ≡ Alu.with_val val outcome }
{
    AbsComputed {
        val,
        flags: outcome.flags,
    }
}

/// An outcome whose value is cut, unless it is a copy.
fn cutting(known: Option<LowBits>, outcome: AbsComputed) -> AbsComputed
    ensures exact { result ≡ Strided.cutting known outcome }
    ensures inhabited { IsOutcome outcome → IsOutcome result }
{
    match known {
        None => outcome,
        Some(known) => with_val(cut_to(known, outcome.val), outcome),
    }
}

// ---- operations of A

fn known_bit(may: May) -> Option<bool>
    ensures { result ≡ Strided.known_bit may }
{
    if is_known(may) { Some(may.set) } else { None }
}

fn alu_low_bits(op: AluOp, a: LowBits, operand: LowBits, carry: May) -> Option<LowBits>
    ensures { result ≡ Strided.alu_low_bits op a operand carry }
{
    match op {
        AluOp::Add => Some(low_sums::sum(a, operand, Some(false))),
        AluOp::Adc => Some(low_sums::sum(a, operand, known_bit(carry))),
        AluOp::Sub => Some(low_sums::difference(a, operand, Some(false))),
        AluOp::Sbc => Some(low_sums::difference(a, operand, known_bit(carry))),
        AluOp::And => Some(low_logic::conjunction(a, operand)),
        AluOp::Xor => Some(low_logic::exclusion(a, operand)),
        AluOp::Or => Some(low_logic::disjunction(a, operand)),
        AluOp::Cp => None,
    }
}

/// An operation of A with another operand: as many low bits as both have. ADC and SBC leave none where the carry isn't known,
/// and of AND and OR a bit that alone decides is enough. CP leaves A.
#[tactic(auto, using(crate::proofs::CuttingLaws::alu_sound, crate::proofs::CuttingLaws::alu_kept, crate::proofs::CuttingLaws::alu_written), unfolding(crate::specs::Strided::alu))]
pub fn alu(op: AluOp, a: Val, operand: Val, flags: Flg) -> AbsComputed
    ensures exact { result ≡ Strided.alu op a operand flags }
    ensures sound { IsSoundOfTwo (machine.alu_result op) a operand flags result }
    ensures inhabited { IsVal a → IsVal operand → IsFlg flags → IsOutcome result }
    ensures kept { result.val.origin ≡ Alu.alu_origin op a }
    ensures written { result.flags.is_own ≡ false }
{
    let known = alu_low_bits(op, low_of(a), low_of(operand), flags.carry);
    cutting(known, plain_alu::alu(op, a, operand, flags))
}

fn itself_low_bits(op: AluOp, a: LowBits) -> Option<LowBits>
    ensures { result ≡ Strided.itself_low_bits op a }
{
    match op {
        AluOp::Add => Some(low_shifts::doubled(a)),
        _ => None,
    }
}

/// An operation of A with A: ADD leaves one more low bit, which is clear.
#[tactic(auto, using(crate::proofs::CuttingLaws::alu_itself_sound, crate::proofs::CuttingLaws::alu_itself_kept, crate::proofs::CuttingLaws::alu_itself_written), unfolding(crate::specs::Strided::alu_itself))]
pub fn alu_itself(op: AluOp, a: Val, flags: Flg) -> AbsComputed
    ensures exact { result ≡ Strided.alu_itself op a flags }
    ensures sound { IsSound (Alu.result_with_itself op) a flags result }
    ensures inhabited { IsVal a → IsFlg flags → IsOutcome result }
    ensures kept { result.val.origin ≡ Alu.itself_origin op a }
    ensures written { result.flags.is_own ≡ false }
{
    cutting(
        itself_low_bits(op, low_of(a)),
        plain_alu::alu_itself(op, a, flags),
    )
}

/// CPL: each known bit turned over.
#[tactic(auto, using(crate::proofs::CuttingLaws::complement_sound, crate::proofs::CuttingLaws::complement_computed), unfolding(crate::specs::Strided::complement))]
pub fn complement(a: Val, flags: Flg) -> AbsComputed
    ensures exact { result ≡ Strided.complement a flags }
    ensures sound { IsSound Logic.complement_result a flags result }
    ensures inhabited { IsVal a → IsFlg flags → IsOutcome result }
    ensures computed { IsComputed result }
{
    let known = low_logic::complement(low_of(a));
    cutting(Some(known), plain_logic::complement(a, flags))
}

// ---- bytes

/// INC: as many low bits, of the number after.
#[tactic(auto, using(crate::proofs::CuttingLaws::increment_sound, crate::proofs::CuttingLaws::increment_computed), unfolding(crate::specs::Strided::increment))]
pub fn increment(val: Val, flags: Flg) -> AbsComputed
    ensures exact { result ≡ Strided.increment val flags }
    ensures sound { IsSound machine.incremented val flags result }
    ensures inhabited { IsVal val → IsFlg flags → IsOutcome result }
    ensures computed { IsComputed result }
{
    let known = low_sums::incremented(low_of(val));
    cutting(Some(known), plain_sums::increment(val, flags))
}

/// DEC: as many low bits, of the number before.
#[tactic(auto, using(crate::proofs::CuttingLaws::decrement_sound, crate::proofs::CuttingLaws::decrement_computed), unfolding(crate::specs::Strided::decrement))]
pub fn decrement(val: Val, flags: Flg) -> AbsComputed
    ensures exact { result ≡ Strided.decrement val flags }
    ensures sound { IsSound machine.decremented val flags result }
    ensures inhabited { IsVal val → IsFlg flags → IsOutcome result }
    ensures computed { IsComputed result }
{
    let known = low_sums::decremented(low_of(val));
    cutting(Some(known), plain_sums::decrement(val, flags))
}

fn shift_low_bits(how: Shift, known: LowBits) -> Option<LowBits>
    ensures { result ≡ Strided.shift_low_bits how known }
{
    match how {
        Shift::Sla => Some(low_shifts::doubled(known)),
        Shift::Srl => Some(low_shifts::halved(known)),
        _ => None,
    }
}

fn digits_swapped(value: u8) -> u8
    ensures { result ≡ with_digits_swapped value }
{
    value % 16 * 16 + value / 16
}

#[tactic(auto, unfolding(crate::specs::Strided::swapped))]
fn swapped(val: Val) -> Val
    ensures { result ≡ Strided.swapped val }
{
    let known = low_shifts::swapped(val.lo / 16, low_of(val));
    cut_to(
        known,
        between(digits_swapped(val.lo), digits_swapped(val.hi)),
    )
}

#[tactic(auto, unfolding(crate::specs::Strided::swap))]
fn swap(val: Val, outcome: AbsComputed) -> AbsComputed
    ensures { result ≡ Strided.swap val outcome }
{
    if val.lo / 16 == val.hi / 16 {
        with_val(swapped(val), outcome)
    } else {
        outcome
    }
}

/// A rotation or shift, or SWAP. SLA leaves one more low bit, which is clear, and SRL one less. SWAP of values with one high digit
/// swaps their bounds, and the low bits of their low digits stand behind it; of others nothing is said.
#[tactic(auto, using(crate::proofs::CuttingLaws::shift_sound, crate::proofs::CuttingLaws::shift_computed), unfolding(crate::specs::Strided::shift_of))]
pub fn shift(how: Shift, val: Val, flags: Flg) -> AbsComputed
    ensures exact { result ≡ Strided.shift_of how val flags }
    ensures sound { IsSound (Shifts.shift_result how) val flags result }
    ensures inhabited { IsVal val → IsFlg flags → IsOutcome result }
    ensures computed { IsComputed result }
{
    let outcome = plain_shifts::shift(how, val, flags);
    match how {
        Shift::Swap => swap(val, outcome),
        _ => cutting(shift_low_bits(how, low_of(val)), outcome),
    }
}

/// RES: the low bits up to the first that isn't known, the bit itself clear. Of `n` the low three bits count.
#[tactic(auto, using(crate::proofs::CuttingLaws::reset_bit_sound, crate::proofs::CuttingLaws::reset_bit_inhabited, crate::proofs::CuttingLaws::reset_bit_computed), unfolding(crate::specs::Strided::reset_bit))]
pub fn reset_bit(n: u8, val: Val) -> Val
    ensures exact { result ≡ Strided.reset_bit n val }
    ensures sound { IsSoundOfVal (machine.bit_reset n) val result }
    ensures inhabited { IsVal val → IsVal result }
    ensures computed { result.origin ≡ None }
{
    cut_to(
        low_logic::reset_bit(n, low_of(val)),
        plain_bits::reset_bit(n, val),
    )
}

/// SET: the low bits up to the first that isn't known, the bit itself set. Of `n` the low three bits count.
#[tactic(auto, using(crate::proofs::CuttingLaws::set_bit_sound, crate::proofs::CuttingLaws::set_bit_inhabited, crate::proofs::CuttingLaws::set_bit_computed), unfolding(crate::specs::Strided::set_bit))]
pub fn set_bit(n: u8, val: Val) -> Val
    ensures exact { result ≡ Strided.set_bit n val }
    ensures sound { IsSoundOfVal (machine.bit_set n) val result }
    ensures inhabited { IsVal val → IsVal result }
    ensures computed { result.origin ≡ None }
{
    cut_to(
        low_logic::set_bit(n, low_of(val)),
        plain_bits::set_bit(n, val),
    )
}
