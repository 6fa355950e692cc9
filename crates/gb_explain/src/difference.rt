//! A part of a state that another state doesn't cover.

use crate::said::{ShownAddresses, ShownBytes, ShownFill};
use crate::together::fmt_relations;
use gb_verify::gb_domain::values::interval_of;
use gb_verify::gb_domain::{Fill, StridedInterval};
use gb_verify::gb_ops::machine::Kind;
use gb_verify::gb_ops::op::Register;
use gb_verify::{Bounds, ImeSet, KeptBanks, May, Origin, Relations, Val};
use std::fmt;

/// A part of a state.
#[derive(Clone, Copy)]
pub enum StatePart {
    Register(Register),
    InterruptEnable,
    Zero,
    Subtract,
    HalfCarry,
    Carry,
    /// Whether F is what it was at entry.
    Flags,
    Ime,
    /// How long an OAM transfer may go on.
    TransferBound,
    Bank,
    Second,
    Gate,
    Mode,
    /// Whether the controller is what it was at entry.
    Controller,
    Stack,
    /// What the flags' test compares A with.
    Test,
    /// What is known of several parts together, if it isn't a test of A alone.
    Together,
    /// A byte of a fact, by the fact's number and the byte's address.
    InFact(u16, u16),
    /// A byte of a fill, by its address.
    InFill(Fill, u16),
    /// How many words are on the stack, by the rules of versions 1 and 2.
    Words,
    /// The high byte of a word, counted from 1, the oldest first.
    HighByte(usize),
    /// The low byte of a word, counted from 1, the oldest first.
    LowByte(usize),
    /// How many items are on the stack, by the rules of version 3.
    Items,
    /// An item, counted from 0, the oldest first.
    Item(usize),
    /// The byte at an address.
    Cell(u16),
}

/// What of the mapped bank a register of the controller has.
#[derive(Clone, Copy)]
pub enum BankPart {
    /// The whole number, or of MBC5 its low eight bits.
    Bank,
    /// MBC5's bit 8.
    HighBit,
    SecondRegister,
}

/// What of the mapped bank a register of the first or of the second window has.
pub(crate) fn bank_part(kind: Kind, is_second: bool) -> BankPart {
    match (kind, is_second) {
        (_, false) => BankPart::Bank,
        (Kind::Mbc5, true) => BankPart::HighBit,
        (_, true) => BankPart::SecondRegister,
    }
}

/// What is known of a part.
#[derive(Clone, Copy)]
pub enum KnownPart {
    Bytes(StridedInterval),
    /// A value, with what it is a copy of.
    Copy(Val),
    /// A value that is a copy of the byte that was at an address at entry.
    CopyOf(Val, u16),
    /// It holds this of the mapped bank.
    Bank(BankPart),
    /// It isn't known to hold this of the mapped bank.
    NotBank(BankPart),
    /// Where SP points while the stack is put aside, if it is.
    Aside(Option<Bounds>),
    Flag(May),
    Gate(May),
    Ime(ImeSet),
    /// So many M-cycles, words or items.
    Count(usize),
    /// The least and the greatest bank.
    Banks(u16, u16),
    Kept(bool),
    /// Which of the controller's registers are what they were at entry.
    Controller(KeptBanks),
    Set(bool),
    Test(Option<u8>),
    Together(Relations),
}

/// A part of a state that another doesn't cover. What is left there is the first state's, what is claimed the other's.
#[derive(Clone, Copy)]
pub struct StateDifference {
    pub part: StatePart,
    pub left: KnownPart,
    pub claimed: KnownPart,
}

/// How to have a byte in the bounds of a fact or a fill.
const BYTE_UNBOUNDED: &str =
    "Write the byte on every path to here, and bound it first: `and $07`, or `cp 8` / `ret nc`. By hand, widen the fact or the fill, or claim less here.";

/// How to leave the mapped bank and its variable right.
const BANK_LOST: &str =
    "Wherever you map a bank, write the variable first, then $2000, and before you return, map the old bank again. By hand, claim less here.";

/// How to leave a byte as it was.
const BYTE_CHANGED: &str =
    "Save the byte first, and write it back before the return: `ldh a, [hBank]` / `push af`, at the end `pop af` / `ldh [hBank], a`.";

/// Whether some of the controller's registers are kept, but not the bank that is claimed to be.
fn is_bank_lost(left: KeptBanks, claimed: KeptBanks) -> bool {
    let is_low_lost = claimed.bank && !left.bank;
    let is_high_lost = claimed.high_bank && !left.high_bank;
    left.is_some() && (is_low_lost || is_high_lost)
}

impl StateDifference {
    /// How to fix what only certificates of version 4 claim.
    pub(crate) fn remedy(&self) -> Option<&'static str> {
        match (self.left, self.claimed) {
            (_, KnownPart::CopyOf(_, _)) => Some(BYTE_CHANGED),
            (_, KnownPart::Bank(_)) => Some(BANK_LOST),
            (KnownPart::Controller(left), KnownPart::Controller(claimed))
                if is_bank_lost(left, claimed) => { Some(BANK_LOST) }
            _ if matches!(self.part, StatePart::InFact(_, _) | StatePart::InFill(_, _)) => {
                Some(BYTE_UNBOUNDED)
            }
            _ => None,
        }
    }
}

/// What a value is a copy of; of what has a number the words before it.
fn origin_text(origin: Option<Origin>) -> &'static str {
    match origin {
        None => "not a copy",
        Some(Origin::A) => "A at entry",
        Some(Origin::B) => "B at entry",
        Some(Origin::C) => "C at entry",
        Some(Origin::D) => "D at entry",
        Some(Origin::E) => "E at entry",
        Some(Origin::H) => "H at entry",
        Some(Origin::L) => "L at entry",
        Some(Origin::F) => "F at entry",
        Some(Origin::Ie) => "IE at entry",
        Some(Origin::ReturnHigh) => "high byte of the return address",
        Some(Origin::ReturnLow) => "low byte of the return address",
        Some(Origin::Kept(_)) => "kept byte",
        Some(Origin::MarkHigh) => "high byte of the saved SP",
        Some(Origin::MarkLow) => "low byte of the saved SP",
    }
}

fn fmt_origin<W: fmt::Write>(origin: Option<Origin>, f: &mut fmt::Formatter<W>) -> fmt::Result {
    let text = origin_text(origin);
    match origin {
        Some(Origin::Kept(number)) => write!(f, "{text} {number} at entry"),
        _ => write!(f, "{text}"),
    }
}

impl StatePart {
    /// Its name; of what has a number the name before it.
    fn name(self) -> &'static str {
        match self {
            StatePart::Register(register) => register.name(),
            StatePart::InterruptEnable => "IE",
            StatePart::Zero => "flag Z",
            StatePart::Subtract => "flag N",
            StatePart::HalfCarry => "flag H",
            StatePart::Carry => "flag C",
            StatePart::Flags => "F",
            StatePart::Ime => "IME",
            StatePart::TransferBound => "OAM DMA time",
            StatePart::Bank => "bank",
            StatePart::Second => "second bank register",
            StatePart::Gate => "cartridge RAM",
            StatePart::Mode => "mode",
            StatePart::Controller => "controller",
            StatePart::Stack => "SP",
            StatePart::Test => "A compared with",
            StatePart::Together => "known together",
            StatePart::InFact(_, _) | StatePart::InFill(_, _) => "byte",
            StatePart::Words => "words on the stack",
            StatePart::HighByte(_) => "high byte of word",
            StatePart::LowByte(_) => "low byte of word",
            StatePart::Items => "bytes on the stack",
            StatePart::Item(_) => "stack byte",
            StatePart::Cell(_) => "byte",
        }
    }
}

impl fmt::Display for StatePart {
    fn fmt<W: fmt::Write>(&self, f: &mut fmt::Formatter<W>) -> fmt::Result {
        let name = self.name();
        match *self {
            StatePart::HighByte(number) | StatePart::LowByte(number) | StatePart::Item(number) => {
                write!(f, "{name} {number}")
            }
            StatePart::Cell(address) => write!(f, "{name} ${address:04X}"),
            StatePart::InFact(fact, address) => {
                write!(f, "{name} ${address:04X} of fact {fact}")
            }
            StatePart::InFill(fill, address) => {
                write!(f, "{name} ${address:04X} of the fill {}", ShownFill(fill))
            }
            _ => write!(f, "{name}"),
        }
    }
}

fn flag_text(flag: May) -> &'static str {
    match (flag.clear, flag.set) {
        (true, true) => "0 or 1",
        (true, false) => "0",
        (false, true) => "1",
        (false, false) => "none",
    }
}

fn gate_text(gate: May) -> &'static str {
    match (gate.clear, gate.set) {
        (true, true) => "enabled or disabled",
        (true, false) => "disabled",
        (false, true) => "enabled",
        (false, false) => "none",
    }
}

fn ime_text(ime: ImeSet) -> &'static str {
    match (ime.off, ime.pending, ime.on) {
        (true, true, true) => "off, pending or on",
        (true, true, false) => "off or pending",
        (true, false, true) => "off or on",
        (false, true, true) => "pending or on",
        (true, false, false) => "off",
        (false, true, false) => "pending",
        (false, false, true) => "on",
        (false, false, false) => "none",
    }
}

fn set_text(is_set: bool) -> &'static str {
    if is_set { "set" } else { "not set" }
}

fn kept_text(is_kept: bool) -> &'static str {
    if is_kept { "kept" } else { "not kept" }
}

pub(crate) fn bank_text(bank: BankPart) -> &'static str {
    match bank {
        BankPart::Bank => "the mapped bank",
        BankPart::HighBit => "bit 8 of the mapped bank",
        BankPart::SecondRegister => "the second bank register",
    }
}

/// Bytes, and what they are copies of.
fn fmt_copy<W: fmt::Write>(val: Val, f: &mut fmt::Formatter<W>) -> fmt::Result {
    let bytes = ShownBytes(interval_of(val));
    write!(f, "{bytes} (")?;
    fmt_origin(val.origin, f)?;
    write!(f, ")")
}

fn fmt_aside<W: fmt::Write>(aside: Option<Bounds>, f: &mut fmt::Formatter<W>) -> fmt::Result {
    match aside {
        None => write!(f, "on the stack"),
        Some(Bounds { first, last }) => { write!(f, "aside at {}", ShownAddresses { first, last }) }
    }
}

fn fmt_banks<W: fmt::Write>(lo: u16, hi: u16, f: &mut fmt::Formatter<W>) -> fmt::Result {
    if lo == hi {
        write!(f, "${lo:02X}")
    } else {
        write!(f, "${lo:02X}..${hi:02X}")
    }
}

/// Prints a register that isn't kept after this text, and answers what separates it from the next one.
fn fmt_lost_part<W: fmt::Write>(
    is_kept: bool,
    before: &'static str,
    name: &str,
    f: &mut fmt::Formatter<W>,
) -> Result<&'static str, fmt::Error> {
    if is_kept {
        return Ok(before);
    }
    write!(f, "{before}{name}")?;
    Ok(", ")
}

/// Whether the controller's registers are kept, and those that aren't by name where it's some of them.
fn fmt_kept<W: fmt::Write>(kept: KeptBanks, f: &mut fmt::Formatter<W>) -> fmt::Result {
    if !kept.is_some() {
        return write!(f, "not kept");
    }
    write!(f, "kept")?;
    let before = fmt_lost_part(kept.bank, " except ", StatePart::Bank.name(), f)?;
    let before = fmt_lost_part(kept.high_bank, before, "bank bit 8", f)?;
    let before = fmt_lost_part(kept.second, before, StatePart::Second.name(), f)?;
    let before = fmt_lost_part(kept.gate, before, StatePart::Gate.name(), f)?;
    fmt_lost_part(kept.mode, before, StatePart::Mode.name(), f)?;
    Ok(())
}

/// What is known, where it is one of some words.
fn known_text(known: &KnownPart) -> Option<&'static str> {
    match *known {
        KnownPart::Flag(flag) => Some(flag_text(flag)),
        KnownPart::Gate(gate) => Some(gate_text(gate)),
        KnownPart::Ime(ime) => Some(ime_text(ime)),
        KnownPart::Kept(is_kept) => Some(kept_text(is_kept)),
        KnownPart::Set(is_set) => Some(set_text(is_set)),
        KnownPart::Test(None) => Some("none"),
        KnownPart::Bank(bank) => Some(bank_text(bank)),
        _ => None,
    }
}

impl fmt::Display for KnownPart {
    fn fmt<W: fmt::Write>(&self, f: &mut fmt::Formatter<W>) -> fmt::Result {
        if let Some(text) = known_text(self) {
            return write!(f, "{text}");
        }
        match *self {
            KnownPart::Bytes(bytes) => write!(f, "{}", ShownBytes(bytes)),
            KnownPart::Copy(val) => fmt_copy(val, f),
            KnownPart::CopyOf(val, address) => {
                let bytes = ShownBytes(interval_of(val));
                write!(f, "{bytes} (byte ${address:04X} at entry)")
            }
            KnownPart::NotBank(bank) => write!(f, "not known to be {}", bank_text(bank)),
            KnownPart::Aside(aside) => fmt_aside(aside, f),
            KnownPart::Count(count) => write!(f, "{count}"),
            KnownPart::Banks(lo, hi) => fmt_banks(lo, hi, f),
            KnownPart::Controller(kept) => fmt_kept(kept, f),
            KnownPart::Test(Some(value)) => write!(f, "${value:02X}"),
            KnownPart::Together(relations) => fmt_relations(&relations, f),
            _ => Ok(()),
        }
    }
}
