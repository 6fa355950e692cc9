//! The parts of a state that another state doesn't cover.

ghost use Rattle.std.specs.Prelude.{◌≡◌, true};
ghost use Rattle.gb_verify.specs.Below.gb_abs.Covering as Covering;
ghost use Rattle.gb_verify.specs.Below.gb_product.Covering.{covers, covers_cells, covers_relations};
ghost use Rattle.gb_verify.specs.Below.gb_product.Below.gb_relations.Transfer.{values_of};
ghost use Rattle.gb_verify.specs.Below.gb_product.Below.gb_summaries.Covering.{covers_summary};
ghost use Rattle.gb_explain.specs.Noted.{IsNoted};

use crate::difference::{KnownPart, StateDifference, StatePart};
use crate::together::{compared, compared_with, is_test_alone};
use crate::unshown::{Unshown, unshown_of};
use gb_verify::gb_domain::interval::bounds;
use gb_verify::gb_domain::values::interval_of;
use gb_verify::gb_ops::machine::Kind;
use gb_verify::gb_ops::op::Register;
use gb_verify::gb_ops::registers::Registers;
use gb_verify::{
    Abs, Cell, Core, Ctl, Flg, KeptBanks, May, Origin, Program, Relations, Rules, States, Val,
    byte_of, covers_ime, covers_may, covers_origin, covers_relations, covers_said, covers_val,
};

/// The parts of a state that another doesn't cover, the first of them with what is known.
#[derive(Clone, Copy)]
pub struct Differences {
    /// The first parts, as many as are printed.
    pub first: [Option<StateDifference>; 9],
    /// How many parts there are.
    pub count: u32,
}

/// What is shown of two values: their bytes, and what they are copies of where that differs.
fn known_vals(s: &Val, t: &Val) -> (KnownPart, KnownPart) {
    if covers_origin(s.origin, t.origin) {
        (
            KnownPart::Bytes(interval_of(*s)),
            KnownPart::Bytes(interval_of(*t)),
        )
    } else {
        (KnownPart::Copy(*s), KnownPart::Copy(*t))
    }
}

/// What is shown of what two states know of several parts together: their tests of A, where that is all.
fn known_together(s: &Relations, t: &Relations) -> (StatePart, (KnownPart, KnownPart)) {
    if is_test_alone(s) && is_test_alone(t) {
        let tests = (KnownPart::Test(compared(s)), KnownPart::Test(compared(t)));
        (StatePart::Test, tests)
    } else {
        (
            StatePart::Together,
            (
                KnownPart::Together(compared_with(s, t)),
                KnownPart::Together(*t),
            ),
        )
    }
}

/// How much is on the stack of both, where these are the bytes from one with a number on.
fn counts(
    rules: Rules,
    number: usize,
    s: &[Val],
    t: &[Val],
) -> (StatePart, (KnownPart, KnownPart)) {
    let left = number.wrapping_add(s.len());
    let claimed = number.wrapping_add(t.len());
    match rules {
        Rules::Simple => (
            StatePart::Words,
            (KnownPart::Count(left / 2), KnownPart::Count(claimed / 2)),
        ),
        Rules::Extended => (
            StatePart::Items,
            (KnownPart::Count(left), KnownPart::Count(claimed)),
        ),
    }
}

/// A byte of the stack, by its number: by the rules of versions 1 and 2 of which word it is, and which of its two.
fn byte_part(rules: Rules, number: usize) -> StatePart {
    let word = (number / 2).wrapping_add(1);
    match rules {
        Rules::Simple if number % 2 == 0 => StatePart::HighByte(word),
        Rules::Simple => StatePart::LowByte(word),
        Rules::Extended => StatePart::Item(number),
    }
}

/// Whether each value that the low eight bits of MBC5's bank may have is one that is claimed.
#[tactic(auto, unfolding(crate::specs::Opened::covers_low_bank))]
fn is_low_bank_within(kind: Kind, left: &Ctl, claimed: &Ctl) -> bool
    ensures { result ≡ Covering.covers_low_bank kind left.now claimed.now }
{
    match kind {
        Kind::Mbc5 => claimed.bank_lo % 256 <= left.bank_lo % 256
            && left.bank_hi % 256 <= claimed.bank_hi % 256,
        _ => true,
    }
}

/// Whether all is kept that is claimed.
#[tactic(auto, unfolding(crate::specs::Opened::covers_kept))]
fn is_kept_as_claimed(left: KeptBanks, claimed: KeptBanks) -> bool
    ensures { result ≡ Covering.covers_kept left claimed }
{
    (!claimed.bank || left.bank)
        && (!claimed.second || left.second)
        && (!claimed.gate || left.gate)
        && (!claimed.mode || left.mode)
        && (!claimed.high_bank || left.high_bank)
}

/// What is known of a part, by the address where it is a copy of a byte that a procedure keeps.
fn with_kept(known: KnownPart, kept: &[u16]) -> KnownPart {
    let KnownPart::Copy(val) = known else {
        return known;
    };
    let Some(Origin::Kept(number)) = val.origin else {
        return known;
    };
    match kept.get(usize::from(number)) {
        None => known,
        Some(address) => KnownPart::CopyOf(val, *address),
    }
}

impl Differences {
    /// No parts.
    pub fn none() -> Differences
        ensures { result.count ≡ 0 }
    {
        Differences {
            first: [None; 9],
            count: 0,
        }
    }

    /// How many parts there are besides the first ones.
    pub fn more(&self) -> u32 {
        self.count.saturating_sub(self.first.len() as u32)
    }

    /// The same, with the addresses of copies of bytes that a procedure keeps.
    pub(crate) fn with_kept(self, kept: &[u16]) -> Differences {
        let mut named = self;
        for told in &mut named.first {
            if let Some(difference) = told {
                difference.left = with_kept(difference.left, kept);
                difference.claimed = with_kept(difference.claimed, kept);
            }
        }
        named
    }

    /// The fact of which a byte is among the first parts, if there is one.
    pub(crate) fn unshown_fact(&self) -> Option<u16> {
        for told in &self.first {
            if let Some(difference) = told {
                if let StatePart::InFact(number, _) = difference.part {
                    return Some(number);
                }
            }
        }
        None
    }

    /// How to fix the first of these parts that only certificates of version 4 claim.
    pub(crate) fn remedy(&self) -> Option<&'static str> {
        for told in &self.first {
            if let Some(difference) = told {
                let remedy = difference.remedy();
                if remedy.is_some() {
                    return remedy;
                }
            }
        }
        None
    }

    /// A part is one of them, unless it is covered.
    fn note(&mut self, is_covered: bool, part: StatePart, known: (KnownPart, KnownPart))
        ensures { IsNoted self.old.count self.new.count is_covered }
    {
        if is_covered {
            return;
        }
        let (left, claimed) = known;
        if let Some(place) = self.first.get_mut(self.count as usize) {
            *place = Some(StateDifference {
                part,
                left,
                claimed,
            });
        }
        self.count = self.count.saturating_add(1);
    }

    fn note_val(&mut self, part: StatePart, s: &Val, t: &Val)
        ensures { IsNoted self.old.count self.new.count (Covering.covers_val s.now t.now) }
    {
        self.note(covers_val(s, t), part, known_vals(s, t));
    }

    fn note_flag(&mut self, part: StatePart, s: May, t: May)
        ensures { IsNoted self.old.count self.new.count (Covering.covers_may s t) }
    {
        self.note(
            covers_may(s, t),
            part,
            (KnownPart::Flag(s), KnownPart::Flag(t)),
        );
    }

    #[tactic(auto, unfolding(crate::specs::Opened::covers_registers))]
    fn note_registers(&mut self, s: &Registers<Val>, t: &Registers<Val>)
        ensures { IsNoted self.old.count self.new.count (Covering.covers_registers s.now t.now) }
    {
        self.note_val(StatePart::Register(Register::A), &s.a, &t.a);
        self.note_val(StatePart::Register(Register::B), &s.b, &t.b);
        self.note_val(StatePart::Register(Register::C), &s.c, &t.c);
        self.note_val(StatePart::Register(Register::D), &s.d, &t.d);
        self.note_val(StatePart::Register(Register::E), &s.e, &t.e);
        self.note_val(StatePart::Register(Register::H), &s.h, &t.h);
        self.note_val(StatePart::Register(Register::L), &s.l, &t.l);
    }

    #[tactic(auto, unfolding(crate::specs::Opened::covers_flags))]
    fn note_flags(&mut self, s: &Flg, t: &Flg)
        ensures { IsNoted self.old.count self.new.count (Covering.covers_flags s.now t.now) }
    {
        self.note_flag(StatePart::Zero, s.zero, t.zero);
        self.note_flag(StatePart::Subtract, s.subtract, t.subtract);
        self.note_flag(StatePart::HalfCarry, s.half_carry, t.half_carry);
        self.note_flag(StatePart::Carry, s.carry, t.carry);
        let is_kept = !t.is_own || s.is_own;
        self.note(
            is_kept,
            StatePart::Flags,
            (KnownPart::Kept(s.is_own), KnownPart::Kept(t.is_own)),
        );
    }

    #[tactic(auto, unfolding(crate::specs::Opened::covers_controller))]
    fn note_controller(&mut self, kind: Kind, s: &Ctl, t: &Ctl)
        ensures { IsNoted self.old.count self.new.count (Covering.covers_controller kind s.now t.now) }
    {
        let is_bank = is_low_bank_within(kind, s, t)
            && t.bank_lo <= s.bank_lo
            && s.bank_hi <= t.bank_hi;
        let banks = (
            KnownPart::Banks(s.bank_lo, s.bank_hi),
            KnownPart::Banks(t.bank_lo, t.bank_hi),
        );
        self.note(is_bank, StatePart::Bank, banks);
        let is_second = t.second_lo <= s.second_lo && s.second_hi <= t.second_hi;
        let seconds = (
            KnownPart::Bytes(bounds(s.second_lo, s.second_hi)),
            KnownPart::Bytes(bounds(t.second_lo, t.second_hi)),
        );
        self.note(is_second, StatePart::Second, seconds);
        let gates = (KnownPart::Gate(s.gate), KnownPart::Gate(t.gate));
        self.note(covers_may(s.gate, t.gate), StatePart::Gate, gates);
        self.note_flag(StatePart::Mode, s.mode, t.mode);
        self.note(
            is_kept_as_claimed(s.kept, t.kept),
            StatePart::Controller,
            (KnownPart::Controller(s.kept), KnownPart::Controller(t.kept)),
        );
    }

    #[tactic(auto, unfolding(crate::specs::Opened::covers_core))]
    fn note_core(&mut self, kind: Kind, s: &Core, t: &Core)
        ensures { IsNoted self.old.count self.new.count (Covering.covers_core kind s.now t.now) }
    {
        self.note_registers(&s.registers, &t.registers);
        self.note_flags(&s.flags, &t.flags);
        self.note_val(StatePart::InterruptEnable, &s.ie, &t.ie);
        let imes = (KnownPart::Ime(s.ime), KnownPart::Ime(t.ime));
        self.note(covers_ime(&s.ime, &t.ime), StatePart::Ime, imes);
        self.note_controller(kind, &s.ctl, &t.ctl);
        let bounds = (
            KnownPart::Count(usize::from(s.bound)),
            KnownPart::Count(usize::from(t.bound)),
        );
        self.note(s.bound <= t.bound, StatePart::TransferBound, bounds);
        let is_set = !t.stack_set || s.stack_set;
        self.note(
            is_set,
            StatePart::Stack,
            (KnownPart::Set(s.stack_set), KnownPart::Set(t.stack_set)),
        );
    }

    /// What is known of several parts together.
    fn note_relations(&mut self, program: &Program<'_>, states: &States<'_>, t: &Relations)
        ensures { IsNoted self.old.count self.new.count (covers_relations program.now states.now.core.now.registers states.now.lists.now.cells states.now.summary.now states.now.relations.now t.now) }
    {
        let (part, known) = known_together(states.relations, t);
        self.note(covers_relations(program, states, t), part, known);
    }

    /// A part is one of them, unless there is none.
    fn note_found(&mut self, found: Option<StateDifference>)
        ensures { IsNoted self.old.count self.new.count true }
    {
        if let Some(
            StateDifference {
                part,
                left,
                claimed,
            },
        ) = found
        {
            self.note(false, part, (left, claimed));
        }
    }

    /// What is said of the whole program.
    fn note_summary(&mut self, program: &Program<'_>, states: &States<'_>, t: &Abs)
        ensures { IsNoted self.old.count self.new.count (covers_summary program.now (values_of states.now.core.now.registers states.now.relations.now.pairs) states.now.core.now.ctl states.now.lists.now.cells states.now.summary.now t.now.cells t.now.summary) }
    {
        if covers_said(program, states, t.cells(), t.summary()) {
            return;
        }
        let Unshown { first, others } = unshown_of(program, states, t);
        self.note(false, first.part, (first.left, first.claimed));
        self.note_found(others[0]);
        self.note_found(others[1]);
    }

    /// Bytes of both, from that with a number on.
    fn note_items(&mut self, rules: Rules, number: usize, s: &[Val], t: &[Val])
        ensures { IsNoted self.old.count self.new.count (Covering.covers_items s.now t.now) }
    {
        let (part, known) = counts(rules, number, s, t);
        let Some((first, rest)) = s.split_first() else {
            self.note(t.is_empty(), part, known);
            return;
        };
        let Some((other, others)) = t.split_first() else {
            self.note(false, part, known);
            return;
        };
        self.note_val(byte_part(rules, number), first, other);
        self.note_items(rules, number.wrapping_add(1), rest, others);
    }

    #[tactic(auto, unfolding(crate::specs::Opened::covers_cells))]
    fn note_cells(&mut self, program: &Program<'_>, states: &States<'_>, t: &[Cell])
        ensures { IsNoted self.old.count self.new.count (covers_cells program.now (values_of states.now.core.now.registers states.now.relations.now.pairs) states.now.lists.now.cells states.now.summary.now t.now) }
    {
        let Some((cell, rest)) = t.split_first() else {
            return;
        };
        let part = StatePart::Cell(cell.address);
        let known = byte_of(program, states, cell.address);
        self.note_val(part, &known, &cell.val);
        self.note_cells(program, states, rest);
    }

    #[tactic(auto, unfolding(crate::specs::Opened::covers))]
    fn note_each(&mut self, program: &Program<'_>, rules: Rules, s: &Abs, t: &Abs)
        ensures { IsNoted self.old.count self.new.count (covers program.now s.now t.now) }
    {
        let states = States::of(s);
        self.note_core(program.kind, s.core(), t.core());
        self.note_relations(program, &states, t.relations());
        self.note_items(rules, 0, s.items(), t.items());
        self.note_cells(program, &states, t.cells());
        self.note_summary(program, &states, t);
    }

    /// The parts of s that t doesn't cover, by the comparisons of `covers`, in the words of the rules.
    pub fn of(program: &Program<'_>, rules: Rules, s: &Abs, t: &Abs) -> Differences
        // Where it lists nothing, t covers s.
        ensures complete { result.count ≡ 0 → covers program.now s.now t.now ≡ true }
    {
        let mut found = Differences::none();
        found.note_each(program, rules, s, t);
        found
    }
}
