//! The transfer function: what instructions do to a core.

ghost use Rattle.std.specs.Prelude.{◌≡◌, ◌<◌};
ghost use Rattle.gb_domain.specs.Rules.{IsVal, IsCore, IsWord};
ghost use Rattle.gb_ops.specs.declared.op.Pair.TheVariants.{Hl};
ghost use Rattle.gb_abs.specs.Below.gb_vals.Bits as Bits;
ghost use Rattle.gb_abs.specs.Below.gb_vals.Daa as Daa;
ghost use Rattle.gb_abs.specs.Below.gb_vals.Shifts as Shifts;
ghost use Rattle.gb_abs.specs.Below.gb_vals.Vals as Vals;
ghost use Rattle.gb_abs_effects.specs.ByRules as ByRules;
ghost use Rattle.gb_abs_effects.specs.Pairs as Pairs;
ghost use Rattle.gb_abs_effects.specs.Pairs.{with_pair};
ghost use Rattle.gb_abs_effects.specs.Transfer as Transfer;
ghost use Rattle.gb_abs_effects.specs.declared.writes.AbsWrite.TheVariants.{Nothing, Byte};
ghost use Rattle.gb_abs_effects.specs.Sound.{HasBytes, IsSoundTransfer, IsSoundUntaken, IsAbsEffect};

use crate::by_rules::{
    alu_by, complement_by, decrement_by, increment_by, itself_by, reset_bit_by, set_bit_by,
    shift_by,
};
use crate::pairs::{
    count_hl, displaced_flags, displaced_word, known_word, next_word_by, pair_halves, pair_or_sp,
    pop_pair, previous_word_by, set_pair, stack_pair_halves, word_sum_by, word_sum_flags,
};
use crate::reads::{high_span, indirect_span};
use crate::writes::{
    AbsEffect, AbsWrite, operand_val, push, quiet, store_operand, update_a, update_operand,
};
use gb_abs::operations::set_register;
use gb_abs::span::Span;
use gb_abs::{adjust, complement_carry, rotate_a, set_carry, single, test_bit};
use gb_domain::types::{Core, Halves, ImeSet, Val};
use gb_ops::op::{AluOp, Op, Operand, Pair, Register, Shift, StackPair};

/// IME behind EI: pending where it was off (CPU instruction set: EI).
fn enabled(ime: ImeSet) -> ImeSet
    ensures { result ≡ Transfer.enabled ime }
{
    ImeSet {
        off: false,
        pending: ime.off,
        on: ime.pending || ime.on,
    }
}

/// IME that is off.
fn only_off() -> ImeSet
    ensures { result ≡ Transfer.only_off }
{
    ImeSet {
        off: true,
        pending: false,
        on: false,
    }
}

/// IME that is on.
fn only_on() -> ImeSet
    ensures { result ≡ Transfer.only_on }
{
    ImeSet {
        off: false,
        pending: false,
        on: true,
    }
}

/// What an instruction takes from elsewhere than the core.
#[derive(Clone, Copy)]
pub struct Inputs {
    /// The rules are those of version 4, by which what is computed is cut to its low bits.
    pub is_whole: bool,
    /// The address behind it.
    pub next: u16,
    /// SP as a pair.
    pub sp: Halves,
    /// What its reads gave: the byte, as the low one, or a word.
    pub word: Halves,
}

// What each instruction does to the core: kept out of line, so that the frame that chooses among them stays small, and what
// they take is lent.

// ---- words

/// LD of a pair and a word.
#[inline(never)]
fn load_pair(pair: Pair, word: u16, core: &mut Core)
    ensures { core.new ≡ with_pair pair (Pairs.known_word word) core.old }
{
    set_pair(pair, known_word(word), core);
}

/// INC of a pair.
#[inline(never)]
fn increment_pair(pair: Pair, inputs: &Inputs, core: &mut Core)
    ensures { core.new ≡ with_pair pair (Pairs.next_word_by inputs.now.is_whole (Pairs.pair_halves pair core.old)) core.old }
{
    let next = next_word_by(inputs.is_whole, pair_halves(pair, core));
    set_pair(pair, next, core);
}

/// DEC of a pair.
#[inline(never)]
fn decrement_pair(pair: Pair, inputs: &Inputs, core: &mut Core)
    ensures { core.new ≡ with_pair pair (Pairs.previous_word_by inputs.now.is_whole (Pairs.pair_halves pair core.old)) core.old }
{
    let previous = previous_word_by(inputs.is_whole, pair_halves(pair, core));
    set_pair(pair, previous, core);
}

/// ADD HL, of a pair of registers or of SP, whose halves are given.
#[inline(never)]
fn add_hl(pair: Pair, inputs: &Inputs, core: &mut Core)
    ensures { core.new ≡ (Transfer.add_hl inputs.now.is_whole pair inputs.now.sp core.old).core }
{
    let hl = pair_halves(Pair::Hl, core);
    let added = pair_or_sp(pair, inputs.sp, core);
    let flags = word_sum_flags(hl, added, core.flags);
    let summed = word_sum_by(inputs.is_whole, pair, hl, added);
    set_pair(Pair::Hl, summed, core);
    core.flags = flags;
}

/// The flags of ADD SP.
#[inline(never)]
fn add_sp(inputs: &Inputs, e8: u8, core: &mut Core)
    ensures { core.new ≡ Transfer.with_flags (Pairs.displaced_flags inputs.now.sp e8) core.old }
{
    core.flags = displaced_flags(inputs.sp, e8);
}

/// LD HL of SP and a displacement.
#[inline(never)]
fn load_hl_sp(inputs: &Inputs, e8: u8, core: &mut Core)
    ensures { core.new ≡ Transfer.with_flags (Pairs.displaced_flags inputs.now.sp e8) (with_pair Hl (Pairs.displaced_word inputs.now.sp e8) core.old) }
{
    set_pair(Pair::Hl, displaced_word(inputs.sp, e8), core);
    core.flags = displaced_flags(inputs.sp, e8);
}

/// PUSH of a pair.
#[inline(never)]
fn push_pair(pair: StackPair, effect: &mut AbsEffect)
    ensures { effect.new ≡ Transfer.pushes effect.old.core (Pairs.stack_pair_halves pair effect.old.core) }
{
    push(stack_pair_halves(pair, &effect.core), effect);
}

/// The address behind a call goes on the stack.
#[inline(never)]
fn push_next(inputs: &Inputs, effect: &mut AbsEffect)
    ensures { effect.new ≡ Transfer.pushes effect.old.core (Pairs.known_word inputs.now.next) }
{
    push(known_word(inputs.next), effect);
}

/// POP of the word that was read.
#[inline(never)]
fn pop_word(pair: StackPair, inputs: &Inputs, core: &mut Core)
    ensures { core.new ≡ Pairs.with_stack_pair pair inputs.now.word core.old }
{
    pop_pair(pair, inputs.word, core);
}

// ---- bytes

/// A is stored at one of these addresses.
fn store_a(span: Span, effect: &mut AbsEffect)
    ensures { effect.new ≡ Transfer.writes effect.old.core (Byte span effect.old.core.registers.a) }
{
    effect.write = AbsWrite::Byte(span, effect.core.registers.a);
}

/// INC of a byte.
#[inline(never)]
fn increment_operand(operand: Operand, inputs: &Inputs, effect: &mut AbsEffect)
    requires { effect.old.write ≡ Nothing }
    ensures { effect.new ≡ Transfer.update_operand operand (ByRules.increment_by inputs.now.is_whole (Transfer.operand_val operand effect.old.core inputs.now.word.low) effect.old.core.flags) effect.old.core }
{
    let val = operand_val(operand, &effect.core, inputs.word.low);
    let outcome = increment_by(inputs.is_whole, val, effect.core.flags);
    update_operand(operand, outcome, effect);
}

/// DEC of a byte.
#[inline(never)]
fn decrement_operand(operand: Operand, inputs: &Inputs, effect: &mut AbsEffect)
    requires { effect.old.write ≡ Nothing }
    ensures { effect.new ≡ Transfer.update_operand operand (ByRules.decrement_by inputs.now.is_whole (Transfer.operand_val operand effect.old.core inputs.now.word.low) effect.old.core.flags) effect.old.core }
{
    let val = operand_val(operand, &effect.core, inputs.word.low);
    let outcome = decrement_by(inputs.is_whole, val, effect.core.flags);
    update_operand(operand, outcome, effect);
}

/// A rotation or shift of a byte.
#[inline(never)]
fn shift_operand(how: Shift, operand: Operand, inputs: &Inputs, effect: &mut AbsEffect)
    requires { effect.old.write ≡ Nothing }
    ensures { effect.new ≡ Transfer.update_operand operand (ByRules.shift_by inputs.now.is_whole how (Transfer.operand_val operand effect.old.core inputs.now.word.low) effect.old.core.flags) effect.old.core }
{
    let val = operand_val(operand, &effect.core, inputs.word.low);
    let outcome = shift_by(inputs.is_whole, how, val, effect.core.flags);
    update_operand(operand, outcome, effect);
}

/// RES of a byte's bit.
#[inline(never)]
fn reset_operand(n: u8, operand: Operand, inputs: &Inputs, effect: &mut AbsEffect)
    requires { effect.old.write ≡ Nothing }
    ensures { effect.new ≡ Transfer.store_operand operand (ByRules.reset_bit_by inputs.now.is_whole n (Transfer.operand_val operand effect.old.core inputs.now.word.low)) effect.old.core }
{
    let val = operand_val(operand, &effect.core, inputs.word.low);
    store_operand(operand, reset_bit_by(inputs.is_whole, n, val), effect);
}

/// SET of a byte's bit.
#[inline(never)]
fn set_operand(n: u8, operand: Operand, inputs: &Inputs, effect: &mut AbsEffect)
    requires { effect.old.write ≡ Nothing }
    ensures { effect.new ≡ Transfer.store_operand operand (ByRules.set_bit_by inputs.now.is_whole n (Transfer.operand_val operand effect.old.core inputs.now.word.low)) effect.old.core }
{
    let val = operand_val(operand, &effect.core, inputs.word.low);
    store_operand(operand, set_bit_by(inputs.is_whole, n, val), effect);
}

/// The flags of BIT.
#[inline(never)]
fn test_operand(n: u8, operand: Operand, inputs: &Inputs, core: &mut Core)
    ensures { core.new ≡ Transfer.with_flags (Bits.test_bit n (Transfer.operand_val operand core.old inputs.now.word.low) core.old.flags) core.old }
{
    let val = operand_val(operand, core, inputs.word.low);
    core.flags = test_bit(n, val, core.flags);
}

/// LD of a byte and a number.
#[inline(never)]
fn load_immediate(to: Operand, value: u8, effect: &mut AbsEffect)
    requires { effect.old.write ≡ Nothing }
    ensures { effect.new ≡ Transfer.store_operand to (Vals.single value) effect.old.core }
{
    store_operand(to, single(value), effect);
}

/// LD of a byte.
#[inline(never)]
fn load_operand(to: Operand, from: Operand, inputs: &Inputs, effect: &mut AbsEffect)
    requires { effect.old.write ≡ Nothing }
    ensures { effect.new ≡ Transfer.store_operand to (Transfer.operand_val from effect.old.core inputs.now.word.low) effect.old.core }
{
    store_operand(to, operand_val(from, &effect.core, inputs.word.low), effect);
}

// ---- A

/// RLCA, RRCA, RLA and RRA.
#[inline(never)]
fn rotate(how: Shift, effect: &mut AbsEffect)
    requires { effect.old.write ≡ Nothing }
    ensures { effect.new ≡ Transfer.update_a (Shifts.rotation_of_a how effect.old.core.registers.a effect.old.core.flags) effect.old.core }
{
    let outcome = rotate_a(how, effect.core.registers.a, effect.core.flags);
    update_a(outcome, effect);
}

/// DAA.
#[inline(never)]
fn adjust_a(effect: &mut AbsEffect)
    requires { effect.old.write ≡ Nothing }
    ensures { effect.new ≡ Transfer.update_a (Daa.adjustment_of effect.old.core.registers.a effect.old.core.flags) effect.old.core }
{
    let outcome = adjust(effect.core.registers.a, effect.core.flags);
    update_a(outcome, effect);
}

/// CPL.
#[inline(never)]
fn complement_a(inputs: &Inputs, effect: &mut AbsEffect)
    requires { effect.old.write ≡ Nothing }
    ensures { effect.new ≡ Transfer.update_a (ByRules.complement_by inputs.now.is_whole effect.old.core.registers.a effect.old.core.flags) effect.old.core }
{
    let outcome = complement_by(inputs.is_whole, effect.core.registers.a, effect.core.flags);
    update_a(outcome, effect);
}

/// An operation of A and a number.
#[inline(never)]
fn apply_immediate(how: AluOp, value: u8, inputs: &Inputs, effect: &mut AbsEffect)
    requires { effect.old.write ≡ Nothing }
    ensures { effect.new ≡ Transfer.update_a (ByRules.alu_by inputs.now.is_whole how effect.old.core.registers.a (Vals.single value) effect.old.core.flags) effect.old.core }
{
    let outcome = alu_by(
        inputs.is_whole,
        how,
        effect.core.registers.a,
        single(value),
        effect.core.flags,
    );
    update_a(outcome, effect);
}

/// An operation of A; where the operand is A too, more is known.
#[inline(never)]
#[tactic(auto, unfolding(crate::specs::Transfer::apply_alu))]
fn apply_alu(how: AluOp, operand: Operand, inputs: &Inputs, effect: &mut AbsEffect)
    requires { effect.old.write ≡ Nothing }
    ensures { effect.new ≡ Transfer.apply_alu inputs.now.is_whole how operand effect.old.core inputs.now.word.low }
{
    let (a, flags) = (effect.core.registers.a, effect.core.flags);
    match operand {
        Operand::Register(Register::A) => {
            update_a(itself_by(inputs.is_whole, how, a, flags), effect);
        }
        _ => {
            let val = operand_val(operand, &effect.core, inputs.word.low);
            update_a(alu_by(inputs.is_whole, how, a, val, flags), effect);
        }
    }
}

// ---- instructions

/// What an instruction that is taken makes of a core whose pending interrupts have become on, and
/// what it writes: in the place of an effect that is this core, and in which nothing is written yet. The
/// machine's effect is followed, but for STOP.
#[inline(never)]
#[tactic(auto, using(crate::proofs::TransferLaws::transfer_sound))]
pub fn transfer_in(op: Op, inputs: &Inputs, effect: &mut AbsEffect)
    requires { effect.old.write ≡ Nothing }
    ensures exact { effect.new ≡ Transfer.transfer inputs.now.is_whole op inputs.now.next inputs.now.sp effect.old.core inputs.now.word.low inputs.now.word.high }
    ensures sound { IsCore effect.old.core → IsVal inputs.now.word.low → IsSoundTransfer op inputs.now.next inputs.now.sp effect.old.core inputs.now.word.low inputs.now.word.high effect.new }
    ensures inhabited { IsCore effect.old.core → IsVal inputs.now.word.low → IsVal inputs.now.word.high → IsWord inputs.now.sp → IsAbsEffect effect.new }
{
    holds_bytes(op, inputs.next);
    apply(op, inputs, effect);
}

/// An instruction's numbers are bytes and words, and the address behind it is a word.
fn holds_bytes(op: Op, next: u16)
    ensures numbers { HasBytes op }
    ensures word { next < 65536 }
{}

/// Each instruction changes the core where it is, so that it isn't copied.
#[inline(always)]
#[tactic(auto, unfolding(crate::specs::Transfer::transfer))]
fn apply(op: Op, inputs: &Inputs, effect: &mut AbsEffect)
    requires { effect.old.write ≡ Nothing }
    ensures { effect.new ≡ Transfer.transfer inputs.now.is_whole op inputs.now.next inputs.now.sp effect.old.core inputs.now.word.low inputs.now.word.high }
{
    let core = &mut effect.core;
    match op {
        Op::LoadPair(to, word) => load_pair(to, word, core),
        Op::StoreA(to) => {
            store_a(indirect_span(to, core), effect);
            count_hl(inputs.is_whole, to, &mut effect.core);
        }
        Op::LoadA(from) => {
            count_hl(inputs.is_whole, from, core);
            set_register(Register::A, inputs.word.low, core);
        }
        Op::IncrementPair(pair) => increment_pair(pair, inputs, core),
        Op::DecrementPair(pair) => decrement_pair(pair, inputs, core),
        Op::Increment(operand) => increment_operand(operand, inputs, effect),
        Op::Decrement(operand) => decrement_operand(operand, inputs, effect),
        Op::LoadImmediate(to, value) => load_immediate(to, value, effect),
        Op::RotateA(how) => rotate(how, effect),
        Op::StoreSp(address) => {
            effect.write = AbsWrite::Word(address, inputs.sp.low, inputs.sp.high);
        }
        Op::AddHl(pair) => add_hl(pair, inputs, core),
        Op::DecimalAdjust => adjust_a(effect),
        Op::Complement => complement_a(inputs, effect),
        Op::SetCarry => core.flags = set_carry(core.flags),
        Op::ComplementCarry => core.flags = complement_carry(core.flags),
        Op::Load(to, from) => load_operand(to, from, inputs, effect),
        Op::Alu(how, from) => apply_alu(how, from, inputs, effect),
        Op::AluImmediate(how, value) => apply_immediate(how, value, inputs, effect),
        Op::ReturnFromInterrupt => core.ime = only_on(),
        Op::Pop(to) => pop_word(to, inputs, core),
        Op::Push(from) => push_pair(from, effect),
        Op::CallIf(_, _) | Op::Call(_) | Op::Restart(_) => push_next(inputs, effect),
        Op::StoreHigh(byte) => store_a(Span::one(0xFF00 + u16::from(byte)), effect),
        Op::StoreHighC => store_a(high_span(core), effect),
        Op::StoreAbsolute(address) => store_a(Span::one(address), effect),
        Op::LoadHigh(_) | Op::LoadHighC | Op::LoadAbsolute(_) => {
            set_register(Register::A, inputs.word.low, core);
        }
        Op::AddSp(e8) => add_sp(inputs, e8, core),
        Op::LoadHlSp(e8) => load_hl_sp(inputs, e8, core),
        Op::DisableInterrupts => core.ime = only_off(),
        Op::EnableInterrupts => core.ime = enabled(core.ime),
        Op::Shift(how, operand) => shift_operand(how, operand, inputs, effect),
        Op::Bit(n, operand) => test_operand(n, operand, inputs, core),
        Op::Reset(n, operand) => reset_operand(n, operand, inputs, effect),
        Op::Set(n, operand) => set_operand(n, operand, inputs, effect),
        // Jumps and returns, HALT and STOP, and LD SP,HL.
        _ => {}
    }
}

/// What an instruction leaves of a core where its condition isn't met: all of it.
#[tactic(auto, using(crate::proofs::TransferLaws::untaken_sound, crate::proofs::RangeLaws::untaken_inhabited), unfolding(crate::specs::Transfer::untaken))]
pub fn untaken(core: &Core) -> AbsEffect
    ensures exact { result ≡ Transfer.untaken core.now }
    ensures sound { IsSoundUntaken core.now result }
    ensures inhabited { IsCore core.now → IsAbsEffect result }
{
    quiet(core)
}
