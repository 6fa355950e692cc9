//! What instructions do.

ghost use Rattle.std.specs.Prelude.{◌≡◌, ◌+◌, ◌%◌, true, false};
ghost use Rattle.gb_ops.specs.declared.op.Pair.TheVariants as pair;
ghost use Rattle.gb_ops.specs.Pairs.{with_pair};
ghost use Rattle.gb_ops.specs.Arithmetic.{word_sum_flags};
ghost use Rattle.gb_ops.specs.Effects as Effects;
ghost use Rattle.gb_ops.specs.declared.machine.Write.TheVariants as write;
ghost use Rattle.gb_effects.specs.Outcomes.{effect};

use crate::arithmetic::{
    adjusted, alu_result, bit_reset, bit_set, bit_tested, decremented, displaced, incremented,
    shifted, sp_sum_flags, word_sum_flags,
};
use crate::flags::is_met;
use crate::pairs::{pair_value, set_pair, set_stack_pair, stack_pair_value, word};
use gb_ops::machine::{Computed, Read, Write};
use gb_ops::op::{Indirect, Op, Operand, Pair};
use gb_ops::registers::{Flags, Ime, Processor};

fn hl(processor: Processor) -> u16
    ensures { result ≡ Effects.hl processor }
{
    pair_value(processor, Pair::Hl)
}

#[tactic(auto, unfolding(gb_ops::specs::Effects::indirect_address))]
fn indirect_address(processor: Processor, indirect: Indirect) -> u16
    ensures { result ≡ Effects.indirect_address processor indirect }
{
    match indirect {
        Indirect::Bc => pair_value(processor, Pair::Bc),
        Indirect::De => pair_value(processor, Pair::De),
        Indirect::HlIncrement | Indirect::HlDecrement => hl(processor),
    }
}

/// HL counts up or down where the operand says so.
#[tactic(auto, unfolding(gb_ops::specs::Effects::with_indirect))]
fn count_indirect(processor: &mut Processor, indirect: Indirect)
    ensures { processor.new ≡ Effects.with_indirect processor.old indirect }
{
    let address = hl(*processor);
    match indirect {
        Indirect::Bc | Indirect::De => {}
        Indirect::HlIncrement => set_pair(processor, Pair::Hl, address.wrapping_add(1)),
        Indirect::HlDecrement => set_pair(processor, Pair::Hl, address.wrapping_sub(1)),
    }
}

#[tactic(auto, unfolding(gb_ops::specs::Effects::operand_read))]
fn operand_read(processor: Processor, operand: Operand) -> Read
    ensures { result ≡ Effects.operand_read processor operand }
{
    match operand {
        Operand::Register(_) => Read::Nothing,
        Operand::AtHl => Read::Byte(hl(processor)),
    }
}

#[tactic(auto, unfolding(gb_ops::specs::Effects::read_if))]
fn read_if(is_read: bool, read: Read) -> Read
    ensures { result ≡ Effects.read_if is_read read }
{
    if is_read { read } else { Read::Nothing }
}

/// What an instruction reads besides its own bytes.
#[inline(always)]
#[tactic(auto, unfolding(gb_ops::specs::Effects::read_of))]
pub fn read_of(op: Op, processor: Processor) -> Read
    ensures { result ≡ Effects.read_of op processor }
{
    let stack = Read::Word(processor.sp);
    match op {
        Op::LoadA(from) => Read::Byte(indirect_address(processor, from)),
        Op::Increment(operand) => operand_read(processor, operand),
        Op::Decrement(operand) => operand_read(processor, operand),
        Op::Load(_, from) => operand_read(processor, from),
        Op::Alu(_, operand) => operand_read(processor, operand),
        Op::ReturnIf(condition) => read_if(is_met(condition, processor.flags), stack),
        Op::Return => stack,
        Op::ReturnFromInterrupt => stack,
        Op::Pop(_) => stack,
        Op::LoadHigh(byte) => Read::Byte(0xFF00 + u16::from(byte)),
        Op::LoadHighC => Read::Byte(0xFF00 + u16::from(processor.registers.c)),
        Op::LoadAbsolute(word) => Read::Byte(word),
        Op::Shift(_, operand) => operand_read(processor, operand),
        Op::Bit(_, operand) => operand_read(processor, operand),
        Op::Reset(_, operand) => operand_read(processor, operand),
        Op::Set(_, operand) => operand_read(processor, operand),
        _ => Read::Nothing,
    }
}

/// What an instruction leaves to be done, as it has changed the processor.
#[derive(Clone, Copy, PartialEq, Eq)]
pub struct Performed {
    pub write: Write,
    /// Whether its condition is met; an instruction without one is taken.
    pub is_taken: bool,
}

/// Nothing is written.
fn quiet() -> Performed
    ensures { result ≡ record { write = write.Nothing; is_taken = true } }
{
    writes(Write::Nothing)
}

fn writes(write: Write) -> Performed
    ensures { result ≡ record { write = write; is_taken = true } }
{
    Performed {
        write,
        is_taken: true,
    }
}

/// The condition is not met.
fn not_taken() -> Performed
    ensures { result ≡ record { write = write.Nothing; is_taken = false } }
{
    Performed {
        write: Write::Nothing,
        is_taken: false,
    }
}

/// The processor with another stack pointer.
pub fn with_sp(processor: Processor, sp: u16) -> Processor
    ensures { result ≡ Effects.with_sp processor sp }
{
    Processor { sp, ..processor }
}

/// The processor at another address.
pub fn with_pc(processor: Processor, pc: u16) -> Processor
    ensures { result ≡ Effects.with_pc processor pc }
{
    Processor { pc, ..processor }
}

/// The value of an operand, where its byte in memory was read.
#[tactic(auto, unfolding(gb_ops::specs::Effects::operand_value))]
fn operand_value(processor: Processor, operand: Operand, low: u8) -> u8
    ensures { result ≡ Effects.operand_value processor operand low }
{
    match operand {
        Operand::Register(which) => processor.registers.get(which),
        Operand::AtHl => low,
    }
}

#[tactic(auto, unfolding(gb_ops::specs::Effects::store_operand))]
fn store_operand(processor: &mut Processor, operand: Operand, value: u8) -> Performed
    ensures { effect processor.new result ≡ Effects.store_operand processor.old operand value }
{
    match operand {
        Operand::Register(which) => {
            processor.registers.set(which, value);
            quiet()
        }
        Operand::AtHl => writes(Write::Byte(hl(*processor), value)),
    }
}

/// The operand and the flags become what was computed.
#[tactic(auto, unfolding(gb_ops::specs::Effects::update_operand))]
fn update_operand(processor: &mut Processor, operand: Operand, computed: Computed) -> Performed
    ensures { effect processor.new result ≡ Effects.update_operand processor.old operand computed }
{
    processor.flags = computed.flags;
    store_operand(processor, operand, computed.value)
}

#[tactic(auto, unfolding(gb_ops::specs::Effects::update_a))]
fn update_a(processor: &mut Processor, computed: Computed) -> Performed
    ensures { effect processor.new result ≡ Effects.update_a processor.old computed }
{
    processor.flags = computed.flags;
    processor.registers.a = computed.value;
    quiet()
}

fn without_zero(computed: Computed) -> Computed
    ensures { result ≡ Effects.without_zero computed }
{
    let mut changed = computed;
    changed.flags.zero = false;
    changed
}

#[tactic(auto, unfolding(gb_ops::specs::Effects::jump))]
fn jump(processor: &mut Processor, to: u16) -> Performed
    ensures { effect processor.new result ≡ Effects.jump processor.old to }
{
    processor.pc = to;
    quiet()
}

/// The word goes on the stack.
#[tactic(auto, unfolding(gb_ops::specs::Effects::push))]
fn push(processor: &mut Processor, word: u16) -> Performed
    ensures { effect processor.new result ≡ Effects.push processor.old word }
{
    let sp = processor.sp;
    processor.sp = sp.wrapping_sub(2);
    writes(Write::Push(sp, word))
}

/// The address of the next instruction goes on the stack.
#[tactic(auto, unfolding(gb_ops::specs::Effects::call))]
fn call(processor: &mut Processor, to: u16) -> Performed
    ensures { effect processor.new result ≡ Effects.call processor.old to }
{
    let sp = processor.sp;
    let back = processor.pc;
    processor.sp = sp.wrapping_sub(2);
    processor.pc = to;
    writes(Write::Push(sp, back))
}

#[tactic(auto, unfolding(gb_ops::specs::Effects::return_to))]
fn return_to(processor: &mut Processor, low: u8, high: u8) -> Performed
    ensures { effect processor.new result ≡ Effects.return_to processor.old low high }
{
    processor.sp = processor.sp.wrapping_add(2);
    processor.pc = word(high, low);
    quiet()
}

#[tactic(auto, unfolding(gb_ops::specs::Effects::enabled))]
fn enabled(ime: Ime) -> Ime
    ensures { result ≡ Effects.enabled ime }
{
    match ime {
        Ime::Off => Ime::Pending,
        Ime::Pending | Ime::On => Ime::On,
    }
}

/// The flags that CPL leaves.
fn complement_flags(flags: Flags) -> Flags
    ensures { result ≡ record flags { subtract = true; half_carry = true } }
{
    Flags {
        subtract: true,
        half_carry: true,
        ..flags
    }
}

/// The flags that SCF and CCF leave, under the carry that they make.
fn carry_flags(flags: Flags, carry: bool) -> Flags
    ensures { result ≡ record flags { subtract = false; half_carry = false; carry = carry } }
{
    Flags {
        subtract: false,
        half_carry: false,
        carry,
        ..flags
    }
}

/// ADD HL.
fn add_to_hl(processor: &mut Processor, value: u16) -> Performed
    ensures { effect processor.new result ≡ Effects.quiet (Effects.with_flags (with_pair processor.old pair.Hl ((Effects.hl processor.old + value) % 65536)) (word_sum_flags (Effects.hl processor.old) value processor.old.flags)) }
{
    let before = hl(*processor);
    let flags = word_sum_flags(before, value, processor.flags);
    set_pair(processor, Pair::Hl, before.wrapping_add(value));
    processor.flags = flags;
    quiet()
}

/// What an instruction does, once its bytes are fetched and its reads gave low and high.
#[tactic(auto, unfolding(gb_ops::specs::Effects::effect_of, gb_ops::specs::Effects::only_if))]
#[inline(always)]
pub fn perform(op: Op, processor: &mut Processor, low: u8, high: u8) -> Performed
    ensures { effect processor.new result ≡ Effects.effect_of op processor.old low high }
{
    let p = processor;
    let a = p.registers.a;
    let flags = p.flags;
    match op {
        Op::Nop | Op::Halt => quiet(),
        Op::Stop => {
            p.stopped = true;
            quiet()
        }
        Op::LoadPair(to, word) => {
            set_pair(p, to, word);
            quiet()
        }
        Op::StoreA(to) => {
            let address = indirect_address(*p, to);
            count_indirect(p, to);
            writes(Write::Byte(address, a))
        }
        Op::LoadA(from) => {
            count_indirect(p, from);
            p.registers.a = low;
            quiet()
        }
        Op::IncrementPair(which) => {
            let value = pair_value(*p, which).wrapping_add(1);
            set_pair(p, which, value);
            quiet()
        }
        Op::DecrementPair(which) => {
            let value = pair_value(*p, which).wrapping_sub(1);
            set_pair(p, which, value);
            quiet()
        }
        Op::Increment(operand) => {
            let value = operand_value(*p, operand, low);
            update_operand(p, operand, incremented(value, flags))
        }
        Op::Decrement(operand) => {
            let value = operand_value(*p, operand, low);
            update_operand(p, operand, decremented(value, flags))
        }
        Op::LoadImmediate(to, value) => store_operand(p, to, value),
        Op::RotateA(how) => update_a(p, without_zero(shifted(how, a, flags.carry))),
        Op::StoreSp(address) => writes(Write::Word(address, p.sp)),
        Op::AddHl(which) => {
            let value = pair_value(*p, which);
            add_to_hl(p, value)
        }
        Op::JumpRelative(e8) => {
            let to = displaced(p.pc, e8);
            jump(p, to)
        }
        Op::JumpRelativeIf(condition, e8) if is_met(condition, flags) => {
            let to = displaced(p.pc, e8);
            jump(p, to)
        }
        Op::DecimalAdjust => update_a(p, adjusted(a, flags)),
        Op::Complement => {
            p.flags = complement_flags(flags);
            p.registers.a = !a;
            quiet()
        }
        Op::SetCarry => {
            p.flags = carry_flags(flags, true);
            quiet()
        }
        Op::ComplementCarry => {
            p.flags = carry_flags(flags, !flags.carry);
            quiet()
        }
        Op::Load(to, from) => {
            let value = operand_value(*p, from, low);
            store_operand(p, to, value)
        }
        Op::Alu(how, from) => {
            let value = operand_value(*p, from, low);
            update_a(p, alu_result(how, a, value, flags))
        }
        Op::AluImmediate(how, value) => update_a(p, alu_result(how, a, value, flags)),
        Op::ReturnIf(condition) if is_met(condition, flags) => return_to(p, low, high),
        Op::Return => return_to(p, low, high),
        Op::ReturnFromInterrupt => {
            p.ime = Ime::On;
            return_to(p, low, high)
        }
        Op::Pop(to) => {
            let sp = p.sp.wrapping_add(2);
            set_stack_pair(p, to, low, high);
            p.sp = sp;
            quiet()
        }
        Op::Push(from) => {
            let value = stack_pair_value(*p, from);
            push(p, value)
        }
        Op::JumpIf(condition, to) if is_met(condition, flags) => jump(p, to),
        Op::Jump(to) => jump(p, to),
        Op::CallIf(condition, to) if is_met(condition, flags) => call(p, to),
        Op::JumpRelativeIf(_, _) | Op::ReturnIf(_) | Op::JumpIf(_, _) | Op::CallIf(_, _) =>
            not_taken(),
        Op::Call(to) => call(p, to),
        Op::Restart(to) => call(p, u16::from(to)),
        Op::StoreHigh(byte) => writes(Write::Byte(0xFF00 + u16::from(byte), a)),
        Op::StoreHighC => {
            let address = 0xFF00 + u16::from(p.registers.c);
            writes(Write::Byte(address, a))
        }
        Op::StoreAbsolute(address) => writes(Write::Byte(address, a)),
        Op::LoadHigh(_) | Op::LoadHighC | Op::LoadAbsolute(_) => {
            p.registers.a = low;
            quiet()
        }
        Op::AddSp(e8) => {
            p.flags = sp_sum_flags(p.sp, e8);
            p.sp = displaced(p.sp, e8);
            quiet()
        }
        Op::LoadHlSp(e8) => {
            let sp = p.sp;
            set_pair(p, Pair::Hl, displaced(sp, e8));
            p.flags = sp_sum_flags(sp, e8);
            quiet()
        }
        Op::LoadSpHl => {
            p.sp = hl(*p);
            quiet()
        }
        Op::JumpHl => {
            let to = hl(*p);
            jump(p, to)
        }
        Op::DisableInterrupts => {
            p.ime = Ime::Off;
            quiet()
        }
        Op::EnableInterrupts => {
            p.ime = enabled(p.ime);
            quiet()
        }
        Op::Shift(how, operand) => {
            let value = operand_value(*p, operand, low);
            update_operand(p, operand, shifted(how, value, flags.carry))
        }
        Op::Bit(n, operand) => {
            let value = operand_value(*p, operand, low);
            p.flags = bit_tested(n, value, flags);
            quiet()
        }
        Op::Reset(n, operand) => {
            let value = operand_value(*p, operand, low);
            store_operand(p, operand, bit_reset(n, value))
        }
        Op::Set(n, operand) => {
            let value = operand_value(*p, operand, low);
            store_operand(p, operand, bit_set(n, value))
        }
    }
}
