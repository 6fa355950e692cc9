//! How values, cells and states are read by the version.

ghost use Rattle.std.specs.Prelude.{◌≡◌, ◌==◌};
ghost use Rattle.gb_fields.specs.Format.{Gives, mapped};
ghost use Rattle.gb_states.specs.WholeReading.{core_at, number_by, key_by};
ghost use Rattle.gb_states.specs.Checked.{are_none};
ghost use Rattle.gb_states.specs.Forms.{form_by, is_fourth, val_by, cell_by, state_by, passed};

use crate::role::Role;
use crate::whole_states::{self, core_at, may_be_aside};
use crate::{fields, states, whole};
use gb_domain::types::{Abs, Cell, Rules, Val};
use gb_fields::CertFault;
use gb_fields::numbers::{byte, word};
use gb_ops::machine::Region;

/// What of its procedure the spelling of a state depends on, in version 4.
#[derive(Clone, Copy, Default)]
pub struct ProcedureForm {
    /// How many addresses it names to be kept.
    pub kept: u8,
    /// The address above its items, 0 where it isn't known.
    pub base: u16,
}

/// How the states of a procedure are spelled: as in versions 1 to 3, or as in version 4 in a certificate of so many facts.
#[derive(Clone, Copy)]
pub enum Form {
    Older(Rules),
    Fourth(u16, ProcedureForm),
}

impl Form {
    /// Of a procedure of this form, in a certificate of this version that has so many facts.
    pub fn of(version: u8, facts: u16, form: ProcedureForm) -> Form
        ensures { result ≡ form_by (version == 4) version facts form }
    {
        if version == 4 {
            Form::Fourth(facts, form)
        } else {
            Form::Older(Rules::of(version))
        }
    }

    /// Whether as in version 4.
    #[inline(always)]
    pub fn is_fourth(self) -> bool
        ensures { result ≡ is_fourth self }
    {
        match self {
            Form::Older(_) => false,
            Form::Fourth(_, _) => true,
        }
    }
}

#[inline(always)]
pub fn val_by(form: Form, bytes: &[u8]) -> Result<(Val, &[u8]), CertFault>
    ensures { Gives (λ x. (x.0, x.1.now)) result (val_by form bytes.now) }
{
    match form {
        Form::Older(rules) => fields::val_at(rules, bytes),
        Form::Fourth(_, form) => whole::val_at(form.kept, bytes),
    }
}

/// A cell, its address from the least one on.
#[inline(always)]
pub fn cell_by(
    form: Form,
    region: Region,
    least: u32,
    bytes: &[u8],
) -> Result<(Cell, &[u8]), CertFault>
    ensures { Gives (λ x. (x.0, x.1.now)) result (cell_by form region least bytes.now) }
{
    match form {
        Form::Older(rules) => states::cell_at(rules, region, least, bytes),
        Form::Fourth(_, form) => whole_states::cell_at(form.kept, region, least, bytes),
    }
}

pub fn state_by(
    form: Form,
    role: Role,
    region: Region,
    bytes: &[u8],
) -> Result<(Abs, &[u8]), CertFault>
    ensures { Gives (λ x. (x.0, x.1.now)) result (state_by form role region bytes.now) }
{
    match form {
        Form::Older(rules) => states::state_at(rules, role, region, bytes),
        Form::Fourth(facts, form) => whole_states::state_at(facts, form, role, region, bytes),
    }
}

/// A core of version 4 is checked and passed over: whether the stack is set, whether it may be put aside, and the test.
pub fn pass_fourth_core(
    kept: u8,
    role: Role,
    bytes: &[u8],
) -> Result<((bool, (bool, Option<u8>)), &[u8]), CertFault>
    ensures { Gives (λ x. (x.0, x.1.now)) result (mapped (passed role) (core_at kept role) bytes.now) }
{
    let ((core, test), rest) = core_at(kept, role, bytes)?;
    Ok(((core.stack_set, (may_be_aside(role, &core), test)), rest))
}

/// The number of a node's procedure: in one byte, or in version 4 in two.
pub fn procedure_at(version: u8, bytes: &[u8]) -> Result<(u16, &[u8]), CertFault>
    ensures { Gives (λ x. (x.0, x.1.now)) result (number_by (version == 4) bytes.now) }
{
    if version == 4 {
        word(bytes)
    } else {
        let (number, rest) = byte(bytes)?;
        Ok((number as u16, rest))
    }
}

/// The procedure's number, of so many, and the address of a node, behind those of the node before.
pub fn key_by(
    version: u8,
    procedures: u16,
    before: (u16, u16),
    bytes: &[u8],
) -> Result<((u16, u16), &[u8]), CertFault>
    ensures { Gives (λ x. (x.0, x.1.now)) result (key_by (version == 4) procedures before bytes.now) }
{
    let (procedure, rest) = procedure_at(version, bytes)?;
    if procedure >= procedures {
        return Err(CertFault::Field);
    }
    if procedure < before.0 {
        return Err(CertFault::Order);
    }
    let (address, rest) = word(rest)?;
    if procedure == before.0 && address < before.1 {
        return Err(CertFault::Order);
    }
    Ok(((procedure, address), rest))
}

/// Whether the numbers behind a core say that there are no items and cells, that nothing is known of several parts together, and that
/// nothing is said of the whole program.
#[inline(always)]
pub fn are_none(form: Form, bytes: &[u8]) -> bool
    ensures { result ≡ are_none form bytes.now }
{
    match form {
        Form::Older(Rules::Simple) => match bytes {
            [items, cells, ..] => *items == 0 && *cells == 0,
            _ => false,
        },
        Form::Older(Rules::Extended) => match bytes {
            [items, present, cells, ..] => *items == 0 && *present == 0 && *cells == 0,
            _ => false,
        },
        Form::Fourth(_, _) => match bytes {
            [items, present, declared, cells, ..] => {
                *items == 0 && *present == 0 && *declared == 0 && *cells == 0
            }
            _ => false,
        },
    }
}
