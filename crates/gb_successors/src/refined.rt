//! What is known of an instruction by its pairs and its stack, beside what its registers say.

ghost use Rattle.std.specs.Prelude.{◌≡◌};
ghost use Rattle.gb_successors.specs.Refined as Refined;

use crate::stacks::StackMove;
use gb_domain::LowBits;
use gb_domain::low_bits::none;
use gb_domain::pairs::Bounds;
use gb_domain::types::{Core, Halves, Origin, Rules, Setting};
use gb_ops::op::{Op, Pair};
use gb_product::{
    AbsEffect, AbsRead, AbsWrite, Inputs, Span, Target, is_own, is_word_known, known, least_word,
    pair_halves,
};

/// Where an address is taken from a pair, its bounds are the pair's.
fn span_within(bounds: Option<Bounds>, span: Span) -> Span
    ensures { result ≡ Refined.span_within bounds span }
{
    match bounds {
        None => span,
        Some(bounds) => Span {
            first: bounds.first,
            last: bounds.last,
            low: span.low,
        },
    }
}

pub(crate) fn cut_read(bounds: Option<Bounds>, read: AbsRead) -> AbsRead
    ensures { result ≡ Refined.cut_read bounds read }
{
    match read {
        AbsRead::Byte(span) => AbsRead::Byte(span_within(bounds, span)),
        AbsRead::Nothing | AbsRead::Top | AbsRead::Word(_) => read,
    }
}

/// Where SP is put aside, POP reads a word there.
pub(crate) fn read_around(rules: Rules, aside: Option<Bounds>, op: Op, read: AbsRead) -> AbsRead
    ensures { result ≡ Refined.read_around rules aside op read }
{
    match (rules, aside, op) {
        (Rules::Extended, Some(bounds), Op::Pop(_)) => AbsRead::Word(Span {
            first: bounds.first,
            last: bounds.last,
            low: none(),
        }),
        _ => read,
    }
}

/// Where low bits of an address are known, the addresses count that have them.
fn with_bits(bits: Option<LowBits>, span: Span) -> Span
    ensures { result ≡ Refined.with_bits bits span }
{
    match bits {
        None => span,
        Some(low) => Span { low, ..span },
    }
}

fn cut_write(bounds: Option<Bounds>, bits: Option<LowBits>, write: &mut AbsWrite)
    ensures { write.new ≡ Refined.cut_write bounds bits write.old }
{
    if let AbsWrite::Byte(span, _) = write {
        *span = with_bits(bits, span_within(bounds, *span));
    }
}

/// The address with its low bits, and the carry of an effect are known so.
#[tactic(auto, unfolding(crate::specs::Refined::refined))]
pub(crate) fn refine(
    bounds: Option<Bounds>,
    bits: Option<LowBits>,
    carry: Option<bool>,
    effect: &mut AbsEffect,
)
    ensures { effect.new ≡ Refined.refined bounds bits carry effect.old }
{
    if let Some(carry) = carry {
        effect.core.flags.carry = known(carry);
    }
    cut_write(bounds, bits, &mut effect.write);
}

/// Whether a word is the one that was pushed as the procedure was entered.
fn is_return_word(word: Halves) -> bool
    ensures { result ≡ Refined.is_return_word word }
{
    is_own(Origin::ReturnHigh, word.high) && is_own(Origin::ReturnLow, word.low)
}

/// The word is popped: to return, or to go on where it says in the same procedure.
fn popped_target(is_main: bool, word: Halves) -> Target
    ensures { result ≡ Refined.popped_target is_main word }
{
    if !is_main && is_return_word(word) {
        Target::Return
    } else if is_word_known(word) {
        Target::At(least_word(word))
    } else {
        Target::Lost
    }
}

fn target_within(bounds: Option<Bounds>) -> Target
    ensures { result ≡ Refined.target_within bounds }
{
    match bounds {
        Some(bounds) if bounds.first >= bounds.last => Target::At(bounds.first),
        _ => Target::Unknown,
    }
}

/// JP HL: HL may hold the return word.
fn jumped_target(is_main: bool, word: Halves, hl: Option<Bounds>) -> Target
    ensures { result ≡ Refined.jumped_target is_main word hl }
{
    if !is_main && is_return_word(word) {
        Target::Return
    } else {
        target_within(hl)
    }
}

/// Where main begins anew it goes on in main.
fn moved_target(stack_move: StackMove, next: u16, target: Target) -> Target
    ensures { result ≡ Refined.moved_target stack_move next target }
{
    match stack_move {
        StackMove::Restart(_) => Target::Main(next),
        StackMove::Stay
        | StackMove::Push(_)
        | StackMove::Take(_)
        | StackMove::Append(_)
        | StackMove::Set(_)
        | StackMove::Aside(_)
        | StackMove::Lost => target,
    }
}

/// Where an instruction goes on, by the rules of version 3: kept out of line, so that the others copy nothing for it.
#[inline(never)]
fn extended_target(
    setting: Setting,
    op: Op,
    inputs: &Inputs,
    core: &Core,
    pointer: Option<Bounds>,
    stack_move: StackMove,
    target: Target,
) -> Target
    ensures { result ≡ Refined.extended_target setting op inputs.now.next inputs.now.word core.now pointer stack_move target }
{
    match op {
        Op::ReturnIf(_) | Op::Return | Op::ReturnFromInterrupt => {
            popped_target(setting.is_main, inputs.word)
        }
        Op::JumpHl => jumped_target(setting.is_main, pair_halves(Pair::Hl, core), pointer),
        _ => moved_target(stack_move, inputs.next, target),
    }
}

/// Where an instruction goes on that read a word; by the rules of versions 1 and 2 where its registers say.
#[inline(always)]
#[tactic(auto, unfolding(crate::specs::Refined::refined_target))]
pub(crate) fn refined_target(
    setting: Setting,
    op: Op,
    inputs: &Inputs,
    core: &Core,
    pointer: Option<Bounds>,
    stack_move: StackMove,
    target: Target,
) -> Target
    ensures { result ≡ Refined.refined_target setting.rules setting op inputs.now.next inputs.now.word core.now pointer stack_move target }
{
    match setting.rules {
        Rules::Simple => target,
        Rules::Extended => {
            extended_target(setting, op, inputs, core, pointer, stack_move, target)
        }
    }
}
