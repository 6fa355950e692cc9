//! The fields of a certificate, and which of them stand in a block.

ghost use Rattle.std.specs.Prelude.{◌≡◌, ◌≤◌};
ghost use Rattle.gb_cert_place.specs.declared.field.Field.TheVariants as field;
ghost use Rattle.gb_cert_place.specs.Layout.{lookup, layout, head_layout, fact_layout, entry_layout, range_layout, origin_field, core_layout, item_owner, item_layout, told_layout, cell_layout, key_layout, number_width, procedure_width, field_at};

use crate::block::Block;
use crate::parts::rules_in;
use gb_domain::types::Rules;
use gb_ops::op::Register;
use gb_states::form::Form;

/// What a value is of.
#[derive(Clone, Copy, PartialEq, Eq)]
pub enum Owner {
    /// IE.
    Ie,
    /// A register.
    Register(Register),
    /// The high byte of the word with this number on the stack.
    ItemHigh(u8),
    /// The low byte of the word with this number on the stack.
    ItemLow(u8),
    /// The byte of the stack with this number, in versions 3 and 4.
    Item(u8),
    /// The cell with this number.
    Cell(u8),
}

/// A field of a certificate, in the order of the format. Numbers count from 0.
#[derive(Clone, Copy, PartialEq, Eq)]
pub enum Field {
    Magic,
    Version,
    RegionFirst,
    RegionLast,
    ProcedureCount,
    NodeCount,
    FactCount,
    FactFirst,
    FactLast,
    FactStep,
    FactLeast,
    FactGreatest,
    FactLowBits,
    Entry,
    Base,
    Need,
    RangeCount,
    RangeFirst(u8),
    RangeLast(u8),
    KeptCount,
    KeptAddress(u8),
    Mark,
    Returns,
    Procedure,
    Address,
    Bank,
    ImeSet,
    TransferBound,
    StackSet,
    Test,
    TestValue,
    BankLeast,
    BankGreatest,
    SecondLeast,
    SecondGreatest,
    GateSet,
    ModeSet,
    Kept,
    Flags,
    FlagsOrigin,
    ValueLeast(Owner),
    ValueGreatest(Owner),
    ValueOrigin(Owner),
    /// In version 4 a value's origin, and how many of its low bits are known.
    ValueTag(Owner),
    ItemCount,
    /// What is known of several parts of a state together.
    Told,
    /// The same in version 4, and what the state says of the whole program.
    ToldWhole,
    CellCount,
    CellAddress(u8),
    /// What is tested behind the last node: whether each entry is a node of its procedure.
    Entries,
    /// Bytes behind the certificate.
    LeftOver,
}

/// The bytes of a node's number, by the version.
fn number_width(version: u8) -> u8
    ensures { result ≡ number_width version }
{
    if version == 1 { 2 } else { 4 }
}

/// The bytes of a procedure's number, by the version.
fn procedure_width(version: u8) -> u8
    ensures { result ≡ procedure_width version }
{
    if version == 4 { 2 } else { 1 }
}

fn head_layout(version: u8) -> [(Field, u8); 6]
    ensures { result ≡ head_layout version }
{
    [
        (Field::Magic, 4),
        (Field::Version, 1),
        (Field::RegionFirst, 2),
        (Field::RegionLast, 2),
        (Field::ProcedureCount, procedure_width(version)),
        (Field::NodeCount, number_width(version)),
    ]
}

fn fact_layout() -> [(Field, u8); 6]
    ensures { result ≡ fact_layout }
{
    [
        (Field::FactFirst, 2),
        (Field::FactLast, 2),
        (Field::FactStep, 1),
        (Field::FactLeast, 1),
        (Field::FactGreatest, 1),
        (Field::FactLowBits, 1),
    ]
}

fn range_layout(index: u8) -> [(Field, u8); 2]
    ensures { result ≡ range_layout index }
{
    [(Field::RangeFirst(index), 2), (Field::RangeLast(index), 2)]
}

/// In versions 1 and 2 which byte of which word the item with this number is: a word's high byte comes first.
fn item_owner(rules: Rules, index: u8) -> Owner
    ensures { result ≡ item_owner rules index }
{
    match rules {
        Rules::Simple => {
            let word = index / 2;
            if index % 2 == 0 {
                Owner::ItemHigh(word)
            } else {
                Owner::ItemLow(word)
            }
        }
        Rules::Extended => Owner::Item(index),
    }
}

/// The last byte of a value: its origin, in version 4 with its low bits.
fn origin_field(form: Form, owner: Owner) -> Field
    ensures { result ≡ origin_field form owner }
{
    match form {
        Form::Older(_) => Field::ValueOrigin(owner),
        Form::Fourth(..) => Field::ValueTag(owner),
    }
}

fn item_layout(form: Form, index: u8) -> [(Field, u8); 3]
    ensures { result ≡ item_layout form index }
{
    let item = item_owner(rules_in(form), index);
    [
        (Field::ValueLeast(item), 1),
        (Field::ValueGreatest(item), 1),
        (origin_field(form, item), 1),
    ]
}

fn cell_layout(form: Form, index: u8) -> [(Field, u8); 4]
    ensures { result ≡ cell_layout form index }
{
    let cell = Owner::Cell(index);
    [
        (Field::CellAddress(index), 2),
        (Field::ValueLeast(cell), 1),
        (Field::ValueGreatest(cell), 1),
        (origin_field(form, cell), 1),
    ]
}

fn core_layout(form: Form) -> [(Field, u8); 38]
    ensures { result ≡ core_layout form }
{
    let a = Owner::Register(Register::A);
    let b = Owner::Register(Register::B);
    let c = Owner::Register(Register::C);
    let d = Owner::Register(Register::D);
    let e = Owner::Register(Register::E);
    let h = Owner::Register(Register::H);
    let l = Owner::Register(Register::L);
    [
        (Field::ImeSet, 1),
        (Field::TransferBound, 1),
        (Field::StackSet, 1),
        (Field::Test, 1),
        (Field::TestValue, 1),
        (Field::BankLeast, 2),
        (Field::BankGreatest, 2),
        (Field::SecondLeast, 1),
        (Field::SecondGreatest, 1),
        (Field::GateSet, 1),
        (Field::ModeSet, 1),
        (Field::Kept, 1),
        (Field::Flags, 1),
        (Field::FlagsOrigin, 1),
        (Field::ValueLeast(Owner::Ie), 1),
        (Field::ValueGreatest(Owner::Ie), 1),
        (origin_field(form, Owner::Ie), 1),
        (Field::ValueLeast(a), 1),
        (Field::ValueGreatest(a), 1),
        (origin_field(form, a), 1),
        (Field::ValueLeast(b), 1),
        (Field::ValueGreatest(b), 1),
        (origin_field(form, b), 1),
        (Field::ValueLeast(c), 1),
        (Field::ValueGreatest(c), 1),
        (origin_field(form, c), 1),
        (Field::ValueLeast(d), 1),
        (Field::ValueGreatest(d), 1),
        (origin_field(form, d), 1),
        (Field::ValueLeast(e), 1),
        (Field::ValueGreatest(e), 1),
        (origin_field(form, e), 1),
        (Field::ValueLeast(h), 1),
        (Field::ValueGreatest(h), 1),
        (origin_field(form, h), 1),
        (Field::ValueLeast(l), 1),
        (Field::ValueGreatest(l), 1),
        (origin_field(form, l), 1),
    ]
}

/// The field of a layout that contains the byte, the last one where none does, and where it begins.
fn lookup(layout: &[(Field, u8)], byte: usize) -> (Field, usize)
    ensures field { result ≡ lookup (field.Magic, 0) 0 layout.now byte }
    ensures first { result.1 ≤ byte }
{
    let mut found = (Field::Magic, 0);
    let mut start = 0;
    for (field, width) in layout {
        found = (*field, start);
        if byte - start < *width as usize {
            return found;
        }
        start += *width as usize;
    }
    found
}

/// The field of a block that contains the byte, by the byte's number in the block, and where in the
/// block the field begins.
#[tactic(auto, unfolding(crate::specs::Layout::layout))]
pub fn field_at(block: Block, byte: usize) -> (Field, usize)
    ensures field { result ≡ field_at block byte }
    ensures first { result.1 ≤ byte }
{
    match block {
        Block::Head { version } => lookup(&head_layout(version), byte),
        Block::FactCount => lookup(&[(Field::FactCount, 2)], byte),
        Block::Fact { .. } => lookup(&fact_layout(), byte),
        Block::Entry { version, .. } => lookup(&[(Field::Entry, number_width(version))], byte),
        Block::Base { .. } => lookup(&[(Field::Base, 2)], byte),
        Block::Need { .. } => lookup(&[(Field::Need, 2)], byte),
        Block::RangeCount { .. } => lookup(&[(Field::RangeCount, 1)], byte),
        Block::Range { index, .. } => lookup(&range_layout(index), byte),
        Block::KeptCount { .. } => lookup(&[(Field::KeptCount, 1)], byte),
        Block::KeptAddress { index, .. } => lookup(&[(Field::KeptAddress(index), 2)], byte),
        Block::Mark => lookup(&[(Field::Mark, 1)], byte),
        Block::Returns { .. } => lookup(&[(Field::Returns, 1)], byte),
        Block::Core { form, .. } => lookup(&core_layout(form), byte),
        Block::ItemCount { .. } => lookup(&[(Field::ItemCount, 1)], byte),
        Block::Item { form, index } => lookup(&item_layout(form, index), byte),
        Block::Told { .. } => lookup(&[(Field::Told, 30)], byte),
        Block::ToldWhole { .. } => lookup(&[(Field::ToldWhole, 131)], byte),
        Block::CellCount { .. } => lookup(&[(Field::CellCount, 1)], byte),
        Block::Cell { form, index, .. } => lookup(&cell_layout(form, index), byte),
        Block::Key { version, .. } => lookup(
            &[
                (Field::Procedure, procedure_width(version)),
                (Field::Address, 2),
            ],
            byte,
        ),
        Block::Bank => lookup(&[(Field::Bank, 2)], byte),
    }
}
