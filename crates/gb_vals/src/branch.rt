//! What a conditional instruction learns from its condition.

ghost use Rattle.std.specs.Prelude.{◌≡◌};
ghost use Rattle.gb_domain.specs.Rules.{IsFlg};
ghost use Rattle.gb_vals.specs.Tests as Tests;
ghost use Rattle.gb_vals.specs.Tests.{IsSoundSide, IsSide, IsKept};

use crate::flags::known;
use gb_domain::types::{Flg, Val};
use gb_ops::op::Condition;

fn may_be_met(condition: Condition, flags: Flg) -> bool
    ensures { result ≡ Tests.may_be_met condition flags }
{
    match condition {
        Condition::NotZero => flags.zero.clear,
        Condition::Zero => flags.zero.set,
        Condition::NotCarry => flags.carry.clear,
        Condition::Carry => flags.carry.set,
    }
}

/// The flags where a condition is met.
fn flags_met(condition: Condition, flags: Flg) -> Flg
    ensures { result ≡ Tests.flags_met condition flags }
{
    match condition {
        Condition::NotZero => Flg {
            zero: known(false),
            ..flags
        },
        Condition::Zero => Flg {
            zero: known(true),
            ..flags
        },
        Condition::NotCarry => Flg {
            carry: known(false),
            ..flags
        },
        Condition::Carry => Flg {
            carry: known(true),
            ..flags
        },
    }
}

/// The values from first, and below end.
#[tactic(auto, unfolding(crate::specs::Tests::meet))]
fn meet(first: u16, end: u16, val: Val) -> Option<Val>
    ensures { result ≡ Tests.meet first end val }
{
    let lo = u16::from(val.lo).max(first);
    let after = (u16::from(val.hi) + 1).min(end);
    if lo < after {
        Some(Val {
            lo: lo as u8,
            hi: (after - 1) as u8,
            low_bits: 0,
            origin: val.origin,
        })
    } else {
        None
    }
}

fn without(n: u8, val: Val) -> Option<Val>
    ensures { result ≡ Tests.without n val }
{
    if val.lo == n {
        meet(u16::from(n) + 1, 256, val)
    } else if val.hi == n {
        meet(0, u16::from(n), val)
    } else {
        Some(val)
    }
}

/// The values that a condition leaves behind a comparison with n.
pub fn narrowed_by(n: u8, condition: Condition, val: Val) -> Option<Val>
    ensures { result ≡ Tests.narrowed_by n condition val }
{
    let bound = u16::from(n);
    match condition {
        Condition::NotZero => without(n, val),
        Condition::Zero => meet(bound, bound + 1, val),
        Condition::NotCarry => meet(bound, 256, val),
        Condition::Carry => meet(0, bound, val),
    }
}

/// The flags on the side of a conditional instruction where its condition is met: the flag is known. `None` where the
/// flag can't be so. F stays a copy.
#[tactic(auto, using(crate::proofs::BranchLaws::side_sound, crate::proofs::BranchLaws::side_inhabited, crate::proofs::BranchLaws::side_kept))]
pub fn side(condition: Condition, flags: Flg) -> Option<Flg>
    ensures exact { result ≡ Tests.side condition flags }
    ensures sound { IsSoundSide condition flags result }
    ensures inhabited { IsFlg flags → IsSide result }
    ensures kept { IsKept flags result }
{
    flags_where(condition, flags)
}

#[tactic(auto, unfolding(crate::specs::Tests::side))]
fn flags_where(condition: Condition, flags: Flg) -> Option<Flg>
    ensures { result ≡ Tests.side condition flags }
{
    if may_be_met(condition, flags) {
        Some(flags_met(condition, flags))
    } else {
        None
    }
}
