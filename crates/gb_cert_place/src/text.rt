//! Places as a person reads them.

use crate::block::Part;
use crate::field::{Field, Owner};
use crate::place::FaultPlace;
use std::fmt;

impl fmt::Display for Part {
    fn fmt<W: fmt::Write>(&self, f: &mut fmt::Formatter<W>) -> fmt::Result {
        match self {
            Part::Head => f.write_str("head"),
            Part::Fact(number) => write!(f, "fact {number}"),
            Part::Procedure(number) => write!(f, "procedure {number}"),
            Part::Exit(number) => write!(f, "exit of procedure {number}"),
            Part::Node(number) => write!(f, "node {number}"),
            Part::End => f.write_str("behind the last node"),
        }
    }
}

impl fmt::Display for Owner {
    fn fmt<W: fmt::Write>(&self, f: &mut fmt::Formatter<W>) -> fmt::Result {
        match self {
            Owner::Ie => f.write_str("IE"),
            Owner::Register(register) => f.write_str(register.name()),
            Owner::ItemHigh(word) => write!(f, "the high byte of item {word}"),
            Owner::ItemLow(word) => write!(f, "the low byte of item {word}"),
            Owner::Item(index) => write!(f, "item {index}"),
            Owner::Cell(index) => write!(f, "cell {index}"),
        }
    }
}

/// The text of a field that is named by no number.
fn field_name(field: Field) -> &'static str {
    match field {
        Field::Magic => "letters GBBC or GBBX",
        Field::Version => "version",
        Field::RegionFirst => "first address of the stack region",
        Field::RegionLast => "last address of the stack region",
        Field::ProcedureCount => "number of procedures",
        Field::NodeCount => "number of nodes",
        Field::FactCount => "number of facts",
        Field::FactFirst => "first address",
        Field::FactLast => "last address",
        Field::FactStep => "step",
        Field::FactLeast => "least byte",
        Field::FactGreatest => "greatest byte",
        Field::FactLowBits => "number of low bits",
        Field::Entry => "entry node",
        Field::Base => "base",
        Field::Need => "need",
        Field::RangeCount => "number of ranges",
        Field::KeptCount => "number of kept addresses",
        Field::Mark => "mark",
        Field::Returns => "whether it returns",
        Field::Procedure => "procedure",
        Field::Address => "address",
        Field::Bank => "bank",
        Field::ImeSet => "IME set",
        Field::TransferBound => "transfer bound",
        Field::StackSet => "stack set",
        Field::Test => "test",
        Field::TestValue => "test value",
        Field::BankLeast => "least of the bank register",
        Field::BankGreatest => "greatest of the bank register",
        Field::SecondLeast => "least of the second register",
        Field::SecondGreatest => "greatest of the second register",
        Field::GateSet => "gate set",
        Field::ModeSet => "mode set",
        Field::Kept => "kept",
        Field::Flags => "flags",
        Field::FlagsOrigin => "origin of the flags",
        Field::ItemCount => "number of items",
        Field::Told => "what is known of several parts together",
        Field::ToldWhole => "what is known of several parts together and said of the whole program",
        Field::CellCount => "number of cells",
        Field::Entries => "entry nodes of all procedures",
        Field::LeftOver => "left-over bytes",
        // These are printed with their numbers.
        Field::RangeFirst(_)
        | Field::RangeLast(_)
        | Field::KeptAddress(_)
        | Field::ValueLeast(_)
        | Field::ValueGreatest(_)
        | Field::ValueOrigin(_)
        | Field::ValueTag(_)
        | Field::CellAddress(_) => "",
    }
}

impl fmt::Display for Field {
    fn fmt<W: fmt::Write>(&self, f: &mut fmt::Formatter<W>) -> fmt::Result {
        match self {
            Field::RangeFirst(index) => write!(f, "first address of range {index}"),
            Field::RangeLast(index) => write!(f, "last address of range {index}"),
            Field::KeptAddress(index) => write!(f, "kept address {index}"),
            Field::ValueLeast(owner) => write!(f, "least of {owner}"),
            Field::ValueGreatest(owner) => write!(f, "greatest of {owner}"),
            Field::ValueOrigin(owner) => write!(f, "origin of {owner}"),
            Field::ValueTag(owner) => write!(f, "origin and low bits of {owner}"),
            Field::CellAddress(index) => write!(f, "address of cell {index}"),
            named => f.write_str(field_name(*named)),
        }
    }
}

impl fmt::Display for FaultPlace {
    /// `C5 at byte 117 (0x75), node 2, IME set: a field is out of its range`.
    fn fmt<W: fmt::Write>(&self, f: &mut fmt::Formatter<W>) -> fmt::Result {
        let number = self.fault.number();
        let offset = self.offset;
        let part = self.part;
        let field = self.field;
        let fault = self.fault.meaning();
        write!(
            f,
            "C{number} at byte {offset} ({offset:#x}), {part}, {field}: {fault}"
        )
    }
}
