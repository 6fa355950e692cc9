//! The blocks of a certificate, and where in one of them reading stops.

ghost use Rattle.std.specs.Prelude.{◌≡◌, length, Err};
ghost use Rattle.gb_fields.specs.Format.{Gives};
ghost use Rattle.gb_cert_place.specs.Blocks.{read_block};
ghost use Rattle.gb_cert_place.specs.Stops.{is_missing, StopsAt, Stopped};

use crate::parts::core_by;
use gb_cert::CertFault;
use gb_domain::places::StackBytes;
use gb_domain::types::Rules;
use gb_fields::head::any_head_at;
use gb_fields::limits::{FACT_LIMIT, cell_limit, range_room};
use gb_fields::numbers::{byte, count_within, word_between, word_count_within};
use gb_fields::parts::{base_at, entry_at, need_at, returns_at};
use gb_ops::machine::Region;
use gb_states::form::{Form, cell_by, key_by, val_by};
use gb_states::relations::relations_at;
use gb_states::role::Role;
use gb_states::states::{item_count_at, range_at};
use gb_states::whole::{fact_at, free_address_at, kept_room};
use gb_states::whole_states::told_at;

/// A run of fields that is read by one rule, with what the rule asks of the fields before it.
#[derive(Clone, Copy)]
pub enum Block {
    /// The head. The version is the one that stands in it.
    Head {
        version: u8,
    },
    /// How many facts a certificate says, in version 4.
    FactCount,
    /// What a certificate says of RAM for the whole program, in version 4.
    Fact {
        region: Region,
    },
    /// A procedure's entry.
    Entry {
        version: u8,
        nodes: u32,
    },
    /// A procedure's base, in versions 3 and 4.
    Base {
        is_main: bool,
        region: Region,
    },
    /// A procedure's need.
    Need {
        rules: Rules,
        is_main: bool,
        region: Region,
    },
    /// How many ranges a procedure has.
    RangeCount {
        rules: Rules,
        is_main: bool,
    },
    /// A range, by its number.
    Range {
        index: u8,
        region: Region,
        least: u32,
    },
    /// How many addresses a procedure names to be kept, in version 4.
    KeptCount {
        is_main: bool,
    },
    /// An address to be kept, by its number, in version 4.
    KeptAddress {
        index: u8,
        region: Region,
        least: u32,
    },
    /// A procedure's mark, in version 4.
    Mark,
    /// Whether a procedure returns.
    Returns {
        is_main: bool,
    },
    /// All of a state but its items and cells, and what it knows of several of its parts together.
    Core {
        form: Form,
        role: Role,
    },
    /// How many words, or in versions 3 and 4 bytes, a state's items are.
    ItemCount {
        rules: Rules,
        role: Role,
        stack_set: bool,
    },
    /// An item, a byte of the stack, by its number.
    Item {
        form: Form,
        index: u8,
    },
    /// What is known of several parts of a state together, in version 3; the test is the state's.
    Told {
        region: Region,
        test: Option<u8>,
    },
    /// The same in version 4, and what the state says of the whole program, in a certificate of so many facts.
    ToldWhole {
        facts: u16,
        stack: StackBytes,
        may_be_aside: bool,
        test: Option<u8>,
    },
    /// How many cells a state has.
    CellCount {
        rules: Rules,
    },
    /// A cell, by its number.
    Cell {
        form: Form,
        index: u8,
        region: Region,
        least: u32,
    },
    /// A node's procedure and address.
    Key {
        version: u8,
        procedures: u16,
        before: (u16, u16),
    },
    /// A node's bank.
    Bank,
}

/// A part of a certificate.
#[derive(Clone, Copy, PartialEq, Eq)]
pub enum Part {
    Head,
    /// A fact, by its number, in version 4.
    Fact(u16),
    /// A procedure, by its number, but for its exit.
    Procedure(u16),
    /// The exit of the procedure with this number.
    Exit(u16),
    /// A node, by its number.
    Node(u32),
    /// What is behind the last node.
    End,
}

/// Where a walk stopped: the part and the block, the fault, how many bytes were left before the
/// block, and how many where reading stopped.
#[derive(Clone, Copy)]
pub struct Stop {
    pub part: Part,
    pub block: Block,
    pub fault: CertFault,
    pub before: usize,
    pub left: usize,
}

/// Reads a block, and keeps no value.
#[tactic(auto, unfolding(crate::specs::Blocks::read_block))]
fn read_block(block: Block, bytes: &[u8]) -> Result<&[u8], CertFault>
    ensures { Gives (λ x. (tt, x.now)) result (read_block block bytes.now) }
{
    match block {
        Block::Head { .. } => {
            let (_, rest) = any_head_at(bytes)?;
            Ok(rest)
        }
        Block::FactCount => {
            let (_, rest) = word_count_within(FACT_LIMIT, bytes)?;
            Ok(rest)
        }
        Block::Fact { region } => {
            let (_, rest) = fact_at(region, bytes)?;
            Ok(rest)
        }
        Block::Entry { version, nodes } => {
            let (_, rest) = entry_at(version, nodes, bytes)?;
            Ok(rest)
        }
        Block::Base { is_main, region } => {
            let (_, rest) = base_at(is_main, region, bytes)?;
            Ok(rest)
        }
        Block::Need {
            rules,
            is_main,
            region,
        } => {
            let (_, rest) = need_at(rules, is_main, region, bytes)?;
            Ok(rest)
        }
        Block::RangeCount { rules, is_main } => {
            let (_, rest) = count_within(range_room(rules, is_main), bytes)?;
            Ok(rest)
        }
        Block::Range { region, least, .. } => {
            let (_, rest) = range_at(region, least, bytes)?;
            Ok(rest)
        }
        Block::KeptCount { is_main } => {
            let (_, rest) = count_within(kept_room(is_main), bytes)?;
            Ok(rest)
        }
        Block::KeptAddress { region, least, .. } => {
            let (_, rest) = free_address_at(region, least, bytes)?;
            Ok(rest)
        }
        Block::Mark => {
            let (_, rest) = byte(bytes)?;
            Ok(rest)
        }
        Block::Returns { is_main } => {
            let (_, rest) = returns_at(is_main, bytes)?;
            Ok(rest)
        }
        Block::Core { form, role } => {
            let (_, rest) = core_by(form, role, bytes)?;
            Ok(rest)
        }
        Block::ItemCount {
            rules,
            role,
            stack_set,
        } => {
            let (_, rest) = item_count_at(rules, role, stack_set, bytes)?;
            Ok(rest)
        }
        Block::Item { form, .. } => {
            let (_, rest) = val_by(form, bytes)?;
            Ok(rest)
        }
        Block::Told { region, test } => {
            let (_, rest) = relations_at(region, test, bytes)?;
            Ok(rest)
        }
        Block::ToldWhole {
            facts,
            stack,
            may_be_aside,
            test,
        } => {
            let (_, rest) = told_at(facts, stack, may_be_aside, test, bytes)?;
            Ok(rest)
        }
        Block::CellCount { rules } => {
            let (_, rest) = count_within(cell_limit(rules), bytes)?;
            Ok(rest)
        }
        Block::Cell {
            form,
            region,
            least,
            ..
        } => {
            let (_, rest) = cell_by(form, region, least, bytes)?;
            Ok(rest)
        }
        Block::Key {
            version,
            procedures,
            before,
        } => {
            let (_, rest) = key_by(version, procedures, before, bytes)?;
            Ok(rest)
        }
        Block::Bank => {
            let (_, rest) = word_between(0, 511, bytes)?;
            Ok(rest)
        }
    }
}

/// Whether a fault says only that bytes are missing.
pub fn is_missing(fault: CertFault) -> bool
    ensures { result ≡ is_missing fault }
{
    matches!(fault, CertFault::CutShort)
}

/// How many bytes decide that the block at the front of the bytes has its fault. A block is short,
/// so they are few.
fn deciding(block: Block, fault: CertFault, bytes: &[u8]) -> usize
    requires { read_block block bytes.now ≡ Err fault }
    ensures { StopsAt (read_block block) bytes.now fault result }
{
    for i in 0..bytes.len() {
        match read_block(block, &bytes[..i]) {
            Ok(_) => return i,
            Err(found) => {
                if !is_missing(found) {
                    return i;
                }
            }
        }
    }
    bytes.len()
}

/// Where reading stops in a part, by the block at the front of the bytes, which has this fault.
pub fn stopped(part: Part, block: Block, fault: CertFault, bytes: &[u8]) -> Stop
    requires { read_block block bytes.now ≡ Err fault }
    ensures place { Stopped (read_block block) bytes.now result }
    ensures block { result.block ≡ block }
    ensures part { result.part ≡ part }
    ensures before { result.before ≡ length bytes.now }
{
    let end = deciding(block, fault, bytes);
    Stop {
        part,
        block,
        fault,
        before: bytes.len(),
        left: bytes.len() - end,
    }
}
