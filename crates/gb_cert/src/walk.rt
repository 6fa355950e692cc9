//! Walking over the parts of a certificate, each checked, and none kept.

ghost use Rattle.std.specs.Prelude.{◌≡◌, ◌==◌, ◌≤◌};
ghost use Rattle.gb_states.specs.Below.gb_fields.Format.{Gives, both, mapped, several};
ghost use Rattle.gb_states.specs.Below.gb_fields.Reading.{base_at, need_at};
ghost use Rattle.gb_cert.specs.Borrowed.{front_at};
ghost use Rattle.gb_cert.specs.Places.{form_if};
ghost use Rattle.gb_cert.specs.Skipping.{skipped, form_named, count_items};
ghost use Rattle.gb_domain.specs.Rules.{after_cell};
ghost use Rattle.gb_states.specs.Rules.{after_range, key};
ghost use Rattle.gb_states.specs.RelationReading.{relations_by};
ghost use Rattle.gb_states.specs.Reading.{items_at, cells_at, state_at, range_at, ranges_at, exit_at, needed_at, body_at, procedure_at};
ghost use Rattle.gb_states.specs.Forms.{cell_by, vals_by, state_by};
ghost use Rattle.gb_states.specs.WholeRules.{stack_bytes, form_in, procedure_form};
ghost use Rattle.gb_states.specs.WholeReading as whole;
ghost use Rattle.gb_states.specs.WholeReading.{told_at, named_at, procedure_by, node_by};

use gb_domain::places::StackBytes;
use gb_domain::types::Rules;
use gb_ops::machine::Region;
use gb_states::fields::pass_core;
use gb_states::form::{cell_by, key_by, pass_fourth_core, val_by};
use gb_states::relations::relations_by;
use gb_states::role::Role;
use gb_states::states::{item_count_at, range_at};
use gb_states::whole::kept_addresses_at;
use gb_states::whole_states::{stack_bytes, told_at};
use gb_states::{
    AnyHead, CertFault, Form, ProcedureForm, base_at, byte, cell_limit, count_within, entry_at,
    item_bytes, need_at, range_room, returns_at, word_between,
};

/// The form that is taken if a procedure's own isn't known.
const NO_FORM: ProcedureForm = ProcedureForm { kept: 0, base: 0 };

/// Passes over so many bytes of the stack.
#[inline(always)]
fn skip_some_items(form: Form, count: u8, bytes: &[u8]) -> Result<&[u8], CertFault>
    ensures { Gives (λ x. x.now) result (skipped (vals_by form count) bytes.now) }
{
    let mut rest = bytes;
    for _ in 0..count {
        let (_item, after) = val_by(form, rest)?;
        rest = after;
    }
    Ok(rest)
}

#[inline(always)]
#[tactic(auto, unfolding(gb_states::specs::Reading::items_at))]
fn skip_items(rules: Rules, role: Role, stack_set: bool, bytes: &[u8]) -> Result<&[u8], CertFault>
    ensures { Gives (λ x. x.now) result (skipped (items_at rules role stack_set) bytes.now) }
{
    let (count, rest) = item_count_at(rules, role, stack_set, bytes)?;
    skip_some_items(Form::Older(rules), item_bytes(rules, count), rest)
}

/// Passes over as many cells as the count says.
#[inline(always)]
fn skip_some_cells(form: Form, region: Region, count: u8, bytes: &[u8]) -> Result<&[u8], CertFault>
    ensures { Gives (λ x. x.now) result (skipped (several (cell_by form region) after_cell 0 count) bytes.now) }
{
    let mut least = 0;
    let mut rest = bytes;
    for _ in 0..count {
        let (cell, after) = cell_by(form, region, least, rest)?;
        least = cell.address as u32 + 1;
        rest = after;
    }
    Ok(rest)
}

#[inline(always)]
#[tactic(auto, unfolding(gb_states::specs::Reading::cells_at))]
fn skip_cells(rules: Rules, region: Region, bytes: &[u8]) -> Result<&[u8], CertFault>
    ensures { Gives (λ x. x.now) result (skipped (cells_at rules region) bytes.now) }
{
    let (count, rest) = count_within(cell_limit(rules), bytes)?;
    skip_some_cells(Form::Older(rules), region, count, rest)
}

/// Passes over what is known of several parts together, and over the cells.
#[inline(always)]
fn skip_told(
    rules: Rules,
    region: Region,
    test: Option<u8>,
    bytes: &[u8],
) -> Result<&[u8], CertFault>
    ensures { Gives (λ x. x.now) result (skipped (both (relations_by rules region test) (cells_at rules region)) bytes.now) }
{
    let (_told, rest) = relations_by(rules, region, test, bytes)?;
    skip_cells(rules, region, rest)
}

#[inline(always)]
#[tactic(auto, using(crate::proofs::Skipping::skip_state))]
fn skip_state(rules: Rules, role: Role, region: Region, bytes: &[u8]) -> Result<&[u8], CertFault>
    ensures { Gives (λ x. x.now) result (skipped (state_at rules role region) bytes.now) }
{
    let ((stack_set, test), rest) = pass_core(rules, role, bytes)?;
    let rest = skip_items(rules, role, stack_set, rest)?;
    skip_told(rules, region, test, rest)
}

/// Passes over as many ranges as the count says.
fn skip_some_ranges(region: Region, count: u8, bytes: &[u8]) -> Result<&[u8], CertFault>
    ensures { Gives (λ x. x.now) result (skipped (several (range_at region) after_range 0 count) bytes.now) }
{
    let mut least = 0;
    let mut rest = bytes;
    for _ in 0..count {
        let (range, after) = range_at(region, least, rest)?;
        least = range.last as u32 + 1;
        rest = after;
    }
    Ok(rest)
}

#[tactic(auto, unfolding(gb_states::specs::Reading::ranges_at))]
pub fn skip_ranges(
    rules: Rules,
    is_main: bool,
    region: Region,
    bytes: &[u8],
) -> Result<&[u8], CertFault>
    ensures { Gives (λ x. x.now) result (skipped (ranges_at rules is_main region) bytes.now) }
{
    let (count, rest) = count_within(range_room(rules, is_main), bytes)?;
    skip_some_ranges(region, count, rest)
}

#[tactic(auto, using(crate::proofs::Skipping::skip_exit))]
pub fn skip_exit(
    rules: Rules,
    is_main: bool,
    region: Region,
    bytes: &[u8],
) -> Result<&[u8], CertFault>
    ensures { Gives (λ x. x.now) result (skipped (exit_at rules is_main region) bytes.now) }
{
    let (returns, rest) = returns_at(is_main, bytes)?;
    if returns {
        skip_state(rules, Role::Exit, region, rest)
    } else {
        Ok(rest)
    }
}

/// Passes over a base, where there is one.
#[tactic(auto, unfolding(crate::specs::Opened::base_at))]
pub fn skip_base(
    rules: Rules,
    is_main: bool,
    region: Region,
    bytes: &[u8],
) -> Result<&[u8], CertFault>
    ensures { Gives (λ x. x.now) result (skipped (base_at rules is_main region) bytes.now) }
{
    match rules {
        Rules::Simple => Ok(bytes),
        Rules::Extended => {
            let (_base, rest) = base_at(is_main, region, bytes)?;
            Ok(rest)
        }
    }
}

/// Passes over a need and ranges.
#[tactic(auto, using(crate::proofs::Skipping::skip_need))]
fn skip_need(rules: Rules, is_main: bool, region: Region, bytes: &[u8]) -> Result<&[u8], CertFault>
    ensures { Gives (λ x. x.now) result (skipped (both (need_at rules is_main region) (ranges_at rules is_main region)) bytes.now) }
{
    let (_need, rest) = need_at(rules, is_main, region, bytes)?;
    skip_ranges(rules, is_main, region, rest)
}

/// Passes over a base, where there is one, a need and ranges.
#[tactic(auto, using(crate::proofs::Skipping::skip_front))]
pub fn skip_front(
    rules: Rules,
    is_main: bool,
    region: Region,
    bytes: &[u8],
) -> Result<&[u8], CertFault>
    ensures { Gives (λ x. x.now) result (skipped (front_at rules is_main region) bytes.now) }
{
    let rest = skip_base(rules, is_main, region, bytes)?;
    skip_need(rules, is_main, region, rest)
}

/// Passes over a need, ranges and an exit.
#[tactic(auto, using(crate::proofs::Skipping::skip_needed))]
fn skip_needed(
    rules: Rules,
    is_main: bool,
    region: Region,
    bytes: &[u8],
) -> Result<&[u8], CertFault>
    ensures { Gives (λ x. x.now) result (skipped (needed_at rules is_main region) bytes.now) }
{
    let (_, rest) = need_at(rules, is_main, region, bytes)?;
    let rest = skip_ranges(rules, is_main, region, rest)?;
    skip_exit(rules, is_main, region, rest)
}

/// Passes over all of a procedure but its entry.
#[tactic(auto, using(crate::proofs::Skipping::skip_body))]
pub fn skip_body(
    rules: Rules,
    is_main: bool,
    region: Region,
    bytes: &[u8],
) -> Result<&[u8], CertFault>
    ensures { Gives (λ x. x.now) result (skipped (body_at rules is_main region) bytes.now) }
{
    let rest = skip_base(rules, is_main, region, bytes)?;
    skip_needed(rules, is_main, region, rest)
}

/// A procedure that begins at one of so many nodes.
#[tactic(auto, using(crate::proofs::Skipping::skip_procedure))]
pub fn skip_procedure(
    version: u8,
    region: Region,
    nodes: u32,
    is_main: bool,
    bytes: &[u8],
) -> Result<&[u8], CertFault>
    ensures { Gives (λ x. x.now) result (skipped (procedure_at version region nodes is_main) bytes.now) }
{
    let (_entry, rest) = entry_at(version, nodes, bytes)?;
    skip_body(Rules::of(version), is_main, region, rest)
}

// ---- version 4

/// Passes over the items: how many there are.
#[tactic(auto, using(crate::proofs::FourthSkipping::skip_items))]
fn skip_fourth_items(
    form: ProcedureForm,
    role: Role,
    stack_set: bool,
    bytes: &[u8],
) -> Result<(u8, &[u8]), CertFault>
    ensures { Gives (λ x. (x.0, x.1.now)) result (mapped count_items (whole.items_at form.kept role stack_set) bytes.now) }
{
    let (count, rest) = item_count_at(Rules::Extended, role, stack_set, bytes)?;
    let after = skip_some_items(Form::Fourth(0, form), count, rest)?;
    Ok((count, after))
}

#[tactic(auto, unfolding(gb_states::specs::WholeReading::cells_at))]
fn skip_fourth_cells(form: ProcedureForm, region: Region, bytes: &[u8]) -> Result<&[u8], CertFault>
    ensures { Gives (λ x. x.now) result (skipped (whole.cells_at form.kept region) bytes.now) }
{
    let (count, rest) = count_within(cell_limit(Rules::Extended), bytes)?;
    skip_some_cells(Form::Fourth(0, form), region, count, rest)
}

/// Passes over what is known of several parts together and said of the whole program, and over the cells.
fn skip_fourth_told(
    facts: u16,
    form: ProcedureForm,
    stack: StackBytes,
    aside: (bool, Option<u8>),
    bytes: &[u8],
) -> Result<&[u8], CertFault>
    ensures { Gives (λ x. x.now) result (skipped (both (told_at facts stack aside.0 aside.1) (whole.cells_at form.kept stack.region)) bytes.now) }
{
    let (_told, rest) = told_at(facts, stack, aside.0, aside.1, bytes)?;
    skip_fourth_cells(form, stack.region, rest)
}

#[tactic(auto, using(crate::proofs::FourthSkipping::skip_state))]
fn skip_fourth_state(
    facts: u16,
    form: ProcedureForm,
    role: Role,
    region: Region,
    bytes: &[u8],
) -> Result<&[u8], CertFault>
    ensures { Gives (λ x. x.now) result (skipped (whole.state_at facts form role region) bytes.now) }
{
    let ((stack_set, aside), rest) = pass_fourth_core(form.kept, role, bytes)?;
    let (count, rest) = skip_fourth_items(form, role, stack_set, rest)?;
    let stack = stack_bytes(form, role, region, count);
    skip_fourth_told(facts, form, stack, aside, rest)
}

/// Passes over a state of any version.
fn skip_state_by(form: Form, role: Role, region: Region, bytes: &[u8]) -> Result<&[u8], CertFault>
    ensures { Gives (λ x. x.now) result (skipped (state_by form role region) bytes.now) }
{
    match form {
        Form::Older(rules) => skip_state(rules, role, region, bytes),
        Form::Fourth(facts, form) => skip_fourth_state(facts, form, role, region, bytes),
    }
}

#[tactic(auto, using(crate::proofs::FourthSkipping::skip_exit))]
fn skip_fourth_exit(
    facts: u16,
    form: ProcedureForm,
    is_main: bool,
    region: Region,
    bytes: &[u8],
) -> Result<&[u8], CertFault>
    ensures { Gives (λ x. x.now) result (skipped (whole.exit_at facts form is_main region) bytes.now) }
{
    let (returns, rest) = returns_at(is_main, bytes)?;
    if returns {
        skip_fourth_state(facts, form, Role::Exit, region, rest)
    } else {
        Ok(rest)
    }
}

/// Passes over the addresses to be kept, the mark and the exit of a procedure with this base: what the spelling of its states depends
/// on.
#[tactic(auto, using(crate::proofs::FourthSkipping::skip_named))]
fn skip_named(
    facts: u16,
    base: u16,
    is_main: bool,
    region: Region,
    bytes: &[u8],
) -> Result<(ProcedureForm, &[u8]), CertFault>
    ensures { Gives (λ x. (x.0, x.1.now)) result (mapped (form_named base) (named_at facts base is_main region) bytes.now) }
{
    let (kept, rest) = kept_addresses_at(is_main, region, bytes)?;
    let (_mark, rest) = byte(rest)?;
    let form = ProcedureForm {
        kept: kept.len() as u8,
        base,
    };
    let after = skip_fourth_exit(facts, form, is_main, region, rest)?;
    Ok((form, after))
}

/// Passes over a procedure of version 4: what the spelling of its states depends on.
#[tactic(auto, using(crate::proofs::FourthSkipping::skip_procedure))]
fn skip_fourth_procedure(
    facts: u16,
    region: Region,
    nodes: u32,
    is_main: bool,
    bytes: &[u8],
) -> Result<(ProcedureForm, &[u8]), CertFault>
    ensures { Gives (λ x. (x.0, x.1.now)) result (mapped procedure_form (whole.procedure_at facts region nodes is_main) bytes.now) }
{
    let (_entry, rest) = entry_at(4, nodes, bytes)?;
    let (base, rest) = base_at(is_main, region, rest)?;
    let (_need, rest) = need_at(Rules::Extended, is_main, region, rest)?;
    let rest = skip_ranges(Rules::Extended, is_main, region, rest)?;
    skip_named(facts, base, is_main, region, rest)
}

// ---- any version

/// A procedure that begins at one of so many nodes, in a certificate of so many facts: what the spelling of its states depends on, which
/// is nothing in versions 1 to 3.
#[tactic(auto, using(crate::proofs::FourthSkipping::skip_older_procedure))]
pub fn skip_procedure_by(
    version: u8,
    facts: u16,
    region: Region,
    nodes: u32,
    is_main: bool,
    bytes: &[u8],
) -> Result<(ProcedureForm, &[u8]), CertFault>
    ensures { Gives (λ x. (x.0, x.1.now)) result (mapped (form_if (version == 4)) (procedure_by (version == 4) version facts region nodes is_main) bytes.now) }
{
    if version == 4 {
        return skip_fourth_procedure(facts, region, nodes, is_main, bytes);
    }
    let rest = skip_procedure(version, region, nodes, is_main, bytes)?;
    Ok((NO_FORM, rest))
}

/// The form of the procedure with this number.
#[inline(always)]
pub fn form_in(forms: &[ProcedureForm], number: u16) -> ProcedureForm
    ensures { result ≡ form_in forms.now number }
{
    match forms.get(number as usize) {
        Some(form) => *form,
        None => NO_FORM,
    }
}

/// Reads the node at the start of the bytes, which comes after a node with the key `before`: gives its key, and the bytes after it.
#[tactic(auto, using(crate::proofs::FourthSkipping::skip_node))]
pub fn skip_node<'a>(
    head: AnyHead,
    facts: u16,
    forms: &[ProcedureForm],
    before: (u16, u16),
    bytes: &'a [u8],
) -> Result<((u16, u16), &'a [u8]), CertFault>
    ensures { Gives (λ x. (x.0, x.1.now)) result (mapped key (node_by (head.version == 4) head.version facts (form_in forms.now) head.region head.procedures before) bytes.now) }
{
    let (key, rest) = key_by(head.version, head.procedures, before, bytes)?;
    let (_bank, state) = word_between(0, 511, rest)?;
    let form = Form::of(head.version, facts, form_in(forms, key.0));
    let after = skip_state_by(form, Role::of(key.0), head.region, state)?;
    Ok((key, after))
}
