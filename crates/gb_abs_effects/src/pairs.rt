//! Words whose bytes are intervals, and the pairs of a core.

ghost use Rattle.std.specs.Prelude.{◌≡◌};
ghost use Rattle.gb_abs.specs.Stack.{youngest};
ghost use Rattle.gb_abs_effects.specs.Pairs as Pairs;

use gb_abs::low_shifts::doubled;
use gb_abs::low_sums::{decremented, high_decremented, high_incremented, incremented, sum};
use gb_abs::strided::{cut_to, low_of};
use gb_abs::{
    any, arithmetic, between, displaced, either, flags_of_val, flags_val, greatest_flags,
    is_single, known, known_flags, single, word,
};
use gb_domain::low_bits::{LowBits, none};
use gb_domain::types::{Abs, Core, Flg, Halves, Val};
use gb_ops::op::{Indirect, Pair, StackPair};

/// A word that is known.
pub(crate) fn known_word(word: u16) -> Halves
    ensures { result ≡ Pairs.known_word word }
{
    Halves {
        high: single((word / 256) as u8),
        low: single((word % 256) as u8),
    }
}

/// A word of which nothing is known.
pub fn any_word() -> Halves
    ensures { result ≡ Pairs.any_word }
{
    Halves {
        high: any(),
        low: any(),
    }
}

/// The word that was pushed last, as far as it is known.
#[inline(never)]
#[tactic(auto, using(crate::proofs::PairLaws::top_word_is, crate::proofs::PairLaws::no_word_is))]
pub fn top_word(state: &Abs) -> Halves
    ensures { result ≡ Pairs.word_or_any (youngest state.now) }
{
    match state.items() {
        [.., high, low] => Halves {
            high: *high,
            low: *low,
        },
        _ => any_word(),
    }
}

/// Whether a word is known.
pub fn is_word_known(halves: Halves) -> bool
    ensures { result ≡ Pairs.is_word_known halves }
{
    is_single(halves.high) && is_single(halves.low)
}

/// The least bytes of a word.
pub fn least_word(halves: Halves) -> u16
    ensures { result ≡ Pairs.least_word halves }
{
    word(halves.high.lo, halves.low.lo)
}

/// A high byte that the low one may carry into.
fn raised(high: Val) -> Val
    ensures { result ≡ Pairs.raised high }
{
    if high.hi < 255 {
        between(high.lo, high.hi + 1)
    } else {
        any()
    }
}

/// A high byte that the low one may borrow from.
fn lowered(high: Val) -> Val
    ensures { result ≡ Pairs.lowered high }
{
    if high.lo > 0 {
        between(high.lo - 1, high.hi)
    } else {
        any()
    }
}

/// INC of a pair: a known word is counted exactly. Else the low byte moves alone where it can't
/// wrap; where it may, it is any byte, and the high one may be one more. Neither is a copy.
#[tactic(auto, unfolding(crate::specs::Pairs::next_word))]
fn next_word(halves: Halves) -> Halves
    ensures { result ≡ Pairs.next_word halves }
{
    let Halves { high, low } = halves;
    if is_word_known(halves) {
        known_word(least_word(halves).wrapping_add(1))
    } else if low.hi < 255 {
        Halves {
            high: between(high.lo, high.hi),
            low: between(low.lo.wrapping_add(1), low.hi + 1),
        }
    } else {
        Halves {
            high: raised(high),
            low: any(),
        }
    }
}

/// DEC of a pair: a known word is counted exactly. Else the low byte moves alone where it can't wrap;
/// where it may, it is any byte, and the high one may be one less. Neither is a copy.
#[tactic(auto, unfolding(crate::specs::Pairs::previous_word))]
fn previous_word(halves: Halves) -> Halves
    ensures { result ≡ Pairs.previous_word halves }
{
    let Halves { high, low } = halves;
    if is_word_known(halves) {
        known_word(least_word(halves).wrapping_sub(1))
    } else if low.lo > 0 {
        Halves {
            high: between(high.lo, high.hi),
            low: between(low.lo - 1, low.hi.saturating_sub(1)),
        }
    } else {
        Halves {
            high: lowered(high),
            low: any(),
        }
    }
}

fn are_words_known(left: Halves, right: Halves) -> bool
    ensures { result ≡ Pairs.are_words_known left right }
{
    is_word_known(left) && is_word_known(right)
}

/// The sum of two words, known where both are.
#[tactic(auto, unfolding(crate::specs::Pairs::word_sum))]
fn word_sum(left: Halves, right: Halves) -> Halves
    ensures { result ≡ Pairs.word_sum left right }
{
    if are_words_known(left, right) {
        known_word(least_word(left).wrapping_add(least_word(right)))
    } else {
        any_word()
    }
}

/// The flags that ADD HL leaves, Z as it was: H and C are known where both words are.
#[tactic(auto, unfolding(crate::specs::Pairs::word_sum_flags))]
pub(crate) fn word_sum_flags(left: Halves, right: Halves, flags: Flg) -> Flg
    ensures { result ≡ Pairs.word_sum_flags left right flags }
{
    if are_words_known(left, right) {
        let (left, right) = (least_word(left), least_word(right));
        let sum_flags = arithmetic::word_sum_flags(left, right, greatest_flags(flags));
        Flg {
            zero: flags.zero,
            ..known_flags(sum_flags)
        }
    } else {
        Flg {
            zero: flags.zero,
            subtract: known(false),
            half_carry: either(),
            carry: either(),
            is_own: false,
        }
    }
}

/// A word and a displacement, known where the word is.
#[tactic(auto, unfolding(crate::specs::Pairs::displaced_word))]
pub(crate) fn displaced_word(halves: Halves, e8: u8) -> Halves
    ensures { result ≡ Pairs.displaced_word halves e8 }
{
    if is_word_known(halves) {
        known_word(displaced(least_word(halves), e8))
    } else {
        any_word()
    }
}

/// The flags of that: Z and N clear; H and C, which are of the low byte, known where the word is.
#[tactic(auto, unfolding(crate::specs::Pairs::displaced_flags))]
pub(crate) fn displaced_flags(halves: Halves, e8: u8) -> Flg
    ensures { result ≡ Pairs.displaced_flags halves e8 }
{
    if is_word_known(halves) {
        known_flags(arithmetic::sp_sum_flags(least_word(halves), e8))
    } else {
        Flg {
            zero: known(false),
            subtract: known(false),
            half_carry: either(),
            carry: either(),
            is_own: false,
        }
    }
}

// ---- by the rules of version 4, cut to low bits, or by those of versions 1 to 3

/// A computed word, cut to low bits of its bytes.
fn cut_word(high: LowBits, low: LowBits, halves: Halves) -> Halves
    ensures { result ≡ Pairs.cut_word high low halves }
{
    Halves {
        high: cut_to(high, halves.high),
        low: cut_to(low, halves.low),
    }
}

/// INC of a pair. By the rules of version 4 the high byte has its low bits still where the low byte doesn't carry.
#[tactic(auto, unfolding(crate::specs::Pairs::next_word_by))]
pub(crate) fn next_word_by(is_whole: bool, halves: Halves) -> Halves
    ensures { result ≡ Pairs.next_word_by is_whole halves }
{
    let next = next_word(halves);
    if !is_whole {
        return next;
    }
    let Halves { high, low } = halves;
    cut_word(
        high_incremented(low_of(high), low.hi),
        incremented(low_of(low)),
        next,
    )
}

/// DEC of a pair. By the rules of version 4 the high byte has its low bits still where the low byte doesn't borrow.
#[tactic(auto, unfolding(crate::specs::Pairs::previous_word_by))]
pub(crate) fn previous_word_by(is_whole: bool, halves: Halves) -> Halves
    ensures { result ≡ Pairs.previous_word_by is_whole halves }
{
    let previous = previous_word(halves);
    if !is_whole {
        return previous;
    }
    let Halves { high, low } = halves;
    cut_word(
        high_decremented(low_of(high), low.lo),
        decremented(low_of(low)),
        previous,
    )
}

/// The low bits of L after ADD HL: HL itself is doubled, and SP counts where it is known.
fn summed_low_bits(pair: Pair, hl: Halves, added: Halves) -> LowBits
    ensures { result ≡ Pairs.summed_low_bits pair hl added }
{
    match pair {
        Pair::Hl => doubled(low_of(hl.low)),
        Pair::Sp => {
            if is_word_known(added) {
                sum(low_of(hl.low), low_of(added.low), Some(false))
            } else {
                none()
            }
        }
        _ => sum(low_of(hl.low), low_of(added.low), Some(false)),
    }
}

/// ADD HL. By the rules of version 4 L has low bits still, and of H nothing is said.
#[tactic(auto, unfolding(crate::specs::Pairs::word_sum_by))]
pub(crate) fn word_sum_by(is_whole: bool, pair: Pair, hl: Halves, added: Halves) -> Halves
    ensures { result ≡ Pairs.word_sum_by is_whole pair hl added }
{
    let summed = word_sum(hl, added);
    if !is_whole {
        return summed;
    }
    cut_word(none(), summed_low_bits(pair, hl, added), summed)
}

// ---- the pairs of a core

/// What a pair of a core holds; SP isn't part of one, so it is any word.
#[tactic(auto, unfolding(crate::specs::Pairs::pair_halves))]
pub fn pair_halves(pair: Pair, core: &Core) -> Halves
    ensures { result ≡ Pairs.pair_halves pair core.now }
{
    let registers = core.registers;
    let (high, low) = match pair {
        Pair::Bc => (registers.b, registers.c),
        Pair::De => (registers.d, registers.e),
        Pair::Hl => (registers.h, registers.l),
        Pair::Sp => return any_word(),
    };
    Halves { high, low }
}

/// What a pair holds, where SP is known as one.
#[tactic(auto, unfolding(crate::specs::Pairs::pair_or_sp))]
pub(crate) fn pair_or_sp(pair: Pair, sp: Halves, core: &Core) -> Halves
    ensures { result ≡ Pairs.pair_or_sp pair sp core.now }
{
    match pair {
        Pair::Sp => sp,
        _ => pair_halves(pair, core),
    }
}

/// A pair of the core gets another word.
#[tactic(auto, unfolding(crate::specs::Pairs::with_pair))]
pub(crate) fn set_pair(pair: Pair, halves: Halves, core: &mut Core)
    ensures { core.new ≡ Pairs.with_pair pair halves core.old }
{
    let Halves { high, low } = halves;
    let registers = &mut core.registers;
    match pair {
        Pair::Bc => {
            registers.b = high;
            registers.c = low;
        }
        Pair::De => {
            registers.d = high;
            registers.e = low;
        }
        Pair::Hl => {
            registers.h = high;
            registers.l = low;
        }
        Pair::Sp => {}
    }
}

/// HL counts up or down where the operand says so.
#[tactic(auto, unfolding(crate::specs::Pairs::with_indirect))]
pub(crate) fn count_hl(is_whole: bool, indirect: Indirect, core: &mut Core)
    ensures { core.new ≡ Pairs.with_indirect is_whole indirect core.old }
{
    let hl = pair_halves(Pair::Hl, core);
    match indirect {
        Indirect::Bc | Indirect::De => {}
        Indirect::HlIncrement => set_pair(Pair::Hl, next_word_by(is_whole, hl), core),
        Indirect::HlDecrement => set_pair(Pair::Hl, previous_word_by(is_whole, hl), core),
    }
}

/// What PUSH of a pair pushes; F is the interval of its bytes.
#[tactic(auto, unfolding(crate::specs::Pairs::stack_pair_halves))]
pub(crate) fn stack_pair_halves(pair: StackPair, core: &Core) -> Halves
    ensures { result ≡ Pairs.stack_pair_halves pair core.now }
{
    let registers = core.registers;
    let (high, low) = match pair {
        StackPair::Bc => (registers.b, registers.c),
        StackPair::De => (registers.d, registers.e),
        StackPair::Hl => (registers.h, registers.l),
        StackPair::Af => (registers.a, flags_val(core.flags)),
    };
    Halves { high, low }
}

/// A pair is popped, and becomes a copy of the word on the stack.
#[tactic(auto, unfolding(crate::specs::Pairs::with_stack_pair))]
pub(crate) fn pop_pair(pair: StackPair, halves: Halves, core: &mut Core)
    ensures { core.new ≡ Pairs.with_stack_pair pair halves core.old }
{
    match pair {
        StackPair::Bc => set_pair(Pair::Bc, halves, core),
        StackPair::De => set_pair(Pair::De, halves, core),
        StackPair::Hl => set_pair(Pair::Hl, halves, core),
        StackPair::Af => {
            core.registers.a = halves.high;
            core.flags = flags_of_val(halves.low);
        }
    }
}
