//! Walking over the parts of a certificate, up to where reading stops.

ghost use Rattle.std.specs.Prelude.{◌≡◌, ◌==◌, ◌≤◌, length, slice_index_or, IfErr, IfOk};
ghost use Rattle.gb_domain.specs.Rules.{after_cell};
ghost use Rattle.gb_fields.specs.Format.{both, mapped, several};
ghost use Rattle.gb_fields.specs.Limits.{fact_limit, kept_limit};
ghost use Rattle.gb_fields.specs.Reading.{base_at, head_in};
ghost use Rattle.gb_fields.specs.Rules.{any_rules_of};
ghost use Rattle.gb_states.specs.Forms.{vals_by, cell_by, state_by};
ghost use Rattle.gb_states.specs.Rules.{after_range, role_of, key};
ghost use Rattle.gb_states.specs.Reading.{range_at, ranges_at};
ghost use Rattle.gb_states.specs.WholeRules.{after_address, form_in};
ghost use Rattle.gb_states.specs.WholeReading.{fact_at, facts_by, free_address_at, kept_addresses_at, named_at, procedure_by, procedures_at, node_by, nodes_at};
ghost use Rattle.gb_cert.specs.Places.{form_if, forms_if};
ghost use Rattle.gb_cert.specs.Skipping.{form_named, count_items};
ghost use Rattle.gb_cert.specs.Borrowed.{exit_by};
ghost use Rattle.gb_cert_place.specs.declared.block.Part.TheVariants as the_part;
ghost use Rattle.gb_cert_place.specs.Forms.{items_by, told_by, stack_by, cells_by, ending_form, ending_by, needed_form, needed_by, base_if, body_form, body_by};
ghost use Rattle.gb_cert_place.specs.Standing.{Of, AmongItems, InItems, InTold, AmongCells, InCells, InLists, InState, AmongRanges, InRanges, AmongKept, InKept, InExit, InNamed, InEnding, InBase, InNeeded, InBody, InProcedure, InProcedures, InNode, InNodes, AmongFacts, InFacts, InCertificate};
ghost use Rattle.gb_cert_place.specs.Stops.{Walks, Finds, StopsIn, parts_at};

use crate::block::{Block, Part, Stop, stopped};
use crate::parts::{core_by, rules_in};
use arrayvec::ArrayVec;
use gb_domain::places::StackBytes;
use gb_domain::types::Rules;
use gb_fields::head::{AnyHead, any_head_at, any_rules_of};
use gb_fields::limits::{FACT_LIMIT, cell_limit, item_bytes, range_room};
use gb_fields::numbers::{byte, count_within, word_between, word_count_within};
use gb_fields::parts::{base_at, entry_at, need_at, returns_at};
use gb_ops::machine::Region;
use gb_states::form::{Form, ProcedureForm, cell_by, key_by, val_by};
use gb_states::relations::relations_at;
use gb_states::role::Role;
use gb_states::states::{item_count_at, range_at};
use gb_states::whole::{fact_at, free_address_at, kept_room};
use gb_states::whole_states::{may_be_aside, stack_bytes, told_at};

/// What the spelling of each procedure's states depends on: version 4 has at most so many procedures.
type Forms = ArrayVec<ProcedureForm, 65_535>;

/// The form that is taken if a procedure's own isn't known.
const NO_FORM: ProcedureForm = ProcedureForm { kept: 0, base: 0 };

// ---- states

/// Passes over so many bytes of the stack.
fn walk_some_items(part: Part, form: Form, count: u8, bytes: &[u8]) -> Result<&[u8], Stop>
    ensures reads { Walks (λ x. x.now) result (vals_by form count) bytes.now }
    ensures block { IfErr result (StopsIn (Of part (AmongItems form count bytes.now))) }
{
    let mut rest = bytes;
    for index in 0..count {
        match val_by(form, rest) {
            Ok((_item, after)) => rest = after,
            Err(fault) => return Err(stopped(part, Block::Item { form, index }, fault, rest)),
        }
    }
    Ok(rest)
}

/// Passes over the bytes of the stack: how many there are.
#[tactic(auto, using(crate::proofs::PartLaws::walk_items))]
fn walk_items(
    part: Part,
    form: Form,
    role: Role,
    stack_set: bool,
    bytes: &[u8],
) -> Result<(u8, &[u8]), Stop>
    ensures reads { Finds (λ x. (x.0, x.1.now)) result (mapped count_items (items_by form role stack_set)) bytes.now }
    ensures block { IfErr result (StopsIn (Of part (InItems form role stack_set bytes.now))) }
{
    let rules = rules_in(form);
    match item_count_at(rules, role, stack_set, bytes) {
        Ok((count, rest)) => {
            let items = item_bytes(rules, count);
            let end = walk_some_items(part, form, items, rest)?;
            Ok((items, end))
        }
        Err(fault) => {
            let block = Block::ItemCount {
                rules,
                role,
                stack_set,
            };
            Err(stopped(part, block, fault, bytes))
        }
    }
}

/// Passes over what is known of several parts together, in versions 3 and 4, and over what a state of version 4 says of the
/// whole program.
#[tactic(auto, using(crate::proofs::PartLaws::walk_told))]
fn walk_told(
    part: Part,
    form: Form,
    stack: StackBytes,
    may_be_aside: bool,
    test: Option<u8>,
    bytes: &[u8],
) -> Result<&[u8], Stop>
    ensures reads { Walks (λ x. x.now) result (told_by form stack may_be_aside test) bytes.now }
    ensures block { IfErr result (StopsIn (Of part (InTold form stack may_be_aside test bytes.now))) }
{
    let region = stack.region;
    match form {
        Form::Older(rules) => match rules {
            Rules::Simple => Ok(bytes),
            Rules::Extended => match relations_at(region, test, bytes) {
                Ok((_told, rest)) => Ok(rest),
                Err(fault) => Err(stopped(part, Block::Told { region, test }, fault, bytes)),
            },
        },
        Form::Fourth(facts, _) => match told_at(facts, stack, may_be_aside, test, bytes) {
            Ok((_told, rest)) => Ok(rest),
            Err(fault) => {
                let block = Block::ToldWhole {
                    facts,
                    stack,
                    may_be_aside,
                    test,
                };
                Err(stopped(part, block, fault, bytes))
            }
        },
    }
}

/// Passes over as many cells as the count says.
fn walk_some_cells(
    part: Part,
    form: Form,
    region: Region,
    count: u8,
    bytes: &[u8],
) -> Result<&[u8], Stop>
    ensures reads { Walks (λ x. x.now) result (several (cell_by form region) after_cell 0 count) bytes.now }
    ensures block { IfErr result (StopsIn (Of part (AmongCells form region count bytes.now))) }
{
    let mut least = 0;
    let mut rest = bytes;
    for index in 0..count {
        match cell_by(form, region, least, rest) {
            Ok((cell, after)) => {
                least = cell.address as u32 + 1;
                rest = after;
            }
            Err(fault) => {
                let block = Block::Cell {
                    form,
                    index,
                    region,
                    least,
                };
                return Err(stopped(part, block, fault, rest));
            }
        }
    }
    Ok(rest)
}

#[tactic(auto, using(crate::proofs::PartLaws::walk_cells))]
fn walk_cells(part: Part, form: Form, region: Region, bytes: &[u8]) -> Result<&[u8], Stop>
    ensures reads { Walks (λ x. x.now) result (cells_by form region) bytes.now }
    ensures block { IfErr result (StopsIn (Of part (InCells form region bytes.now))) }
{
    let rules = rules_in(form);
    match count_within(cell_limit(rules), bytes) {
        Ok((count, rest)) => {
            let end = walk_some_cells(part, form, region, count, rest)?;
            Ok(end)
        }
        Err(fault) => Err(stopped(part, Block::CellCount { rules }, fault, bytes)),
    }
}

/// Passes over what is known of several parts together, over what is said of the whole program, and over the cells.
#[tactic(auto, using(crate::proofs::PartLaws::walk_lists))]
fn walk_lists(
    part: Part,
    form: Form,
    stack: StackBytes,
    may_be_aside: bool,
    test: Option<u8>,
    bytes: &[u8],
) -> Result<&[u8], Stop>
    ensures reads { Walks (λ x. x.now) result (both (told_by form stack may_be_aside test) (cells_by form stack.region)) bytes.now }
    ensures block { IfErr result (StopsIn (Of part (InLists form stack may_be_aside test bytes.now))) }
{
    let rest = walk_told(part, form, stack, may_be_aside, test, bytes)?;
    let end = walk_cells(part, form, stack.region, rest)?;
    Ok(end)
}

/// The stack of a state that has so many items.
fn stack_by(form: Form, role: Role, region: Region, count: u8) -> StackBytes
    ensures { result ≡ stack_by form role region count }
{
    match form {
        Form::Older(_) => StackBytes {
            region,
            base: 0,
            count: 0,
        },
        Form::Fourth(_, form) => stack_bytes(form, role, region, count),
    }
}

#[tactic(auto, using(crate::proofs::PartLaws::walk_state))]
fn walk_state(
    part: Part,
    form: Form,
    role: Role,
    region: Region,
    bytes: &[u8],
) -> Result<&[u8], Stop>
    ensures reads { Walks (λ x. x.now) result (state_by form role region) bytes.now }
    ensures block { IfErr result (StopsIn (Of part (InState form role region bytes.now))) }
{
    match core_by(form, role, bytes) {
        Ok((core, rest)) => {
            let (count, rest) = walk_items(part, form, role, core.0.stack_set, rest)?;
            let stack = stack_by(form, role, region, count);
            let aside = may_be_aside(role, &core.0);
            let end = walk_lists(part, form, stack, aside, core.1, rest)?;
            Ok(end)
        }
        Err(fault) => Err(stopped(part, Block::Core { form, role }, fault, bytes)),
    }
}

// ---- procedures

/// Passes over as many ranges as the count says.
fn walk_some_ranges(part: Part, region: Region, count: u8, bytes: &[u8]) -> Result<&[u8], Stop>
    ensures reads { Walks (λ x. x.now) result (several (range_at region) after_range 0 count) bytes.now }
    ensures block { IfErr result (StopsIn (Of part (AmongRanges region count bytes.now))) }
{
    let mut least = 0;
    let mut rest = bytes;
    for index in 0..count {
        match range_at(region, least, rest) {
            Ok((range, after)) => {
                least = range.last as u32 + 1;
                rest = after;
            }
            Err(fault) => {
                let block = Block::Range {
                    index,
                    region,
                    least,
                };
                return Err(stopped(part, block, fault, rest));
            }
        }
    }
    Ok(rest)
}

#[tactic(auto, using(crate::proofs::PartLaws::walk_ranges))]
fn walk_ranges(
    part: Part,
    rules: Rules,
    is_main: bool,
    region: Region,
    bytes: &[u8],
) -> Result<&[u8], Stop>
    ensures reads { Walks (λ x. x.now) result (ranges_at rules is_main region) bytes.now }
    ensures block { IfErr result (StopsIn (Of part (InRanges rules is_main region bytes.now))) }
{
    match count_within(range_room(rules, is_main), bytes) {
        Ok((count, rest)) => {
            let end = walk_some_ranges(part, region, count, rest)?;
            Ok(end)
        }
        Err(fault) => {
            let block = Block::RangeCount { rules, is_main };
            Err(stopped(part, block, fault, bytes))
        }
    }
}

/// Passes over as many addresses to be kept as the count says.
fn walk_some_kept(part: Part, region: Region, count: u8, bytes: &[u8]) -> Result<&[u8], Stop>
    ensures reads { Walks (λ x. x.now) result (several (free_address_at region) after_address 0 count) bytes.now }
    ensures block { IfErr result (StopsIn (Of part (AmongKept region count bytes.now))) }
{
    let mut least = 0;
    let mut rest = bytes;
    for index in 0..count {
        match free_address_at(region, least, rest) {
            Ok((address, after)) => {
                least = address as u32 + 1;
                rest = after;
            }
            Err(fault) => {
                let block = Block::KeptAddress {
                    index,
                    region,
                    least,
                };
                return Err(stopped(part, block, fault, rest));
            }
        }
    }
    Ok(rest)
}

/// Passes over the addresses that a procedure names to be kept: how many there are.
#[tactic(auto, using(crate::proofs::NamedLaws::walk_kept))]
fn walk_kept(part: Part, is_main: bool, region: Region, bytes: &[u8]) -> Result<(u8, &[u8]), Stop>
    ensures reads { Finds (λ x. (x.0, x.1.now)) result (mapped length (kept_addresses_at is_main region)) bytes.now }
    ensures block { IfErr result (StopsIn (Of part (InKept is_main region bytes.now))) }
{
    match count_within(kept_room(is_main), bytes) {
        Ok((count, rest)) => {
            let end = walk_some_kept(part, region, count, rest)?;
            Ok((count, end))
        }
        Err(fault) => Err(stopped(part, Block::KeptCount { is_main }, fault, bytes)),
    }
}

/// Passes over whether the procedure with this number returns, and over its exit.
#[tactic(auto, using(crate::proofs::PartLaws::walk_exit))]
fn walk_exit(
    number: u16,
    form: Form,
    is_main: bool,
    region: Region,
    bytes: &[u8],
) -> Result<&[u8], Stop>
    ensures reads { Walks (λ x. x.now) result (exit_by form is_main region) bytes.now }
    ensures block { IfErr result (StopsIn (InExit number form is_main region bytes.now)) }
{
    match returns_at(is_main, bytes) {
        Ok((true, rest)) => {
            let end = walk_state(Part::Exit(number), form, Role::Exit, region, rest)?;
            Ok(end)
        }
        Ok((false, rest)) => Ok(rest),
        Err(fault) => {
            let block = Block::Returns { is_main };
            Err(stopped(Part::Procedure(number), block, fault, bytes))
        }
    }
}

/// Passes over the addresses that the procedure with this number and this base names to be kept, its mark and its exit: what the
/// spelling of its states depends on.
#[tactic(auto, using(crate::proofs::NamedLaws::walk_named))]
fn walk_named(
    number: u16,
    facts: u16,
    base: u16,
    is_main: bool,
    region: Region,
    bytes: &[u8],
) -> Result<(ProcedureForm, &[u8]), Stop>
    ensures reads { Finds (λ x. (x.0, x.1.now)) result (mapped (form_named base) (named_at facts base is_main region)) bytes.now }
    ensures block { IfErr result (StopsIn (InNamed number facts base is_main region bytes.now)) }
{
    let part = Part::Procedure(number);
    let (kept, rest) = walk_kept(part, is_main, region, bytes)?;
    let rest = match byte(rest) {
        Ok((_mark, after)) => after,
        Err(fault) => return Err(stopped(part, Block::Mark, fault, rest)),
    };
    let form = ProcedureForm { kept, base };
    let end = walk_exit(number, Form::Fourth(facts, form), is_main, region, rest)?;
    Ok((form, end))
}

/// Passes over what is behind the ranges of the procedure with this number: what the spelling of its states depends on.
#[tactic(auto, using(crate::proofs::NamedLaws::walk_ending))]
fn walk_ending(
    number: u16,
    version: u8,
    facts: u16,
    base: u16,
    is_main: bool,
    region: Region,
    bytes: &[u8],
) -> Result<(ProcedureForm, &[u8]), Stop>
    ensures reads { Finds (λ x. (x.0, x.1.now)) result (mapped (ending_form (version == 4) base) (ending_by (version == 4) version facts is_main region base)) bytes.now }
    ensures block { IfErr result (StopsIn (InEnding number version facts base is_main region bytes.now)) }
{
    if version == 4 {
        let (form, end) = walk_named(number, facts, base, is_main, region, bytes)?;
        return Ok((form, end));
    }
    let form = Form::Older(Rules::of(version));
    let end = walk_exit(number, form, is_main, region, bytes)?;
    Ok((NO_FORM, end))
}

/// The base, which versions 1 to 3 don't ask for.
fn base_if(fourth: bool, base: u16) -> u16
    ensures { result ≡ base_if fourth base }
{
    if fourth { base } else { 0 }
}

/// Passes over a base, in versions 3 and 4: what it is, where that is asked for, as in version 4.
#[tactic(auto, using(crate::proofs::PartLaws::walk_base))]
fn walk_base(
    part: Part,
    version: u8,
    is_main: bool,
    region: Region,
    bytes: &[u8],
) -> Result<(u16, &[u8]), Stop>
    ensures reads { Finds (λ x. (x.0, x.1.now)) result (mapped (base_if (version == 4)) (base_at (any_rules_of version) is_main region)) bytes.now }
    ensures block { IfErr result (StopsIn (Of part (InBase (any_rules_of version) is_main region bytes.now))) }
{
    match any_rules_of(version) {
        Rules::Simple => Ok((0, bytes)),
        Rules::Extended => match base_at(is_main, region, bytes) {
            Ok((base, rest)) => Ok((base_if(version == 4, base), rest)),
            Err(fault) => Err(stopped(part, Block::Base { is_main, region }, fault, bytes)),
        },
    }
}

/// Passes over the need of the procedure with this number, its ranges and what is behind them: what the spelling of its states
/// depends on.
#[tactic(auto, using(crate::proofs::ProcedureLaws::walk_needed))]
fn walk_needed(
    number: u16,
    version: u8,
    facts: u16,
    base: u16,
    is_main: bool,
    region: Region,
    bytes: &[u8],
) -> Result<(ProcedureForm, &[u8]), Stop>
    ensures reads { Finds (λ x. (x.0, x.1.now)) result (mapped (needed_form (version == 4) base) (needed_by (version == 4) version facts is_main region base)) bytes.now }
    ensures block { IfErr result (StopsIn (InNeeded number version facts base is_main region bytes.now)) }
{
    let part = Part::Procedure(number);
    let rules = any_rules_of(version);
    match need_at(rules, is_main, region, bytes) {
        Ok((_need, rest)) => {
            let rest = walk_ranges(part, rules, is_main, region, rest)?;
            let (form, end) = walk_ending(number, version, facts, base, is_main, region, rest)?;
            Ok((form, end))
        }
        Err(fault) => {
            let block = Block::Need {
                rules,
                is_main,
                region,
            };
            Err(stopped(part, block, fault, bytes))
        }
    }
}

/// Passes over all of the procedure with this number but its entry: what the spelling of its states depends on.
#[tactic(auto, using(crate::proofs::ProcedureLaws::walk_body))]
fn walk_body(
    number: u16,
    version: u8,
    facts: u16,
    is_main: bool,
    region: Region,
    bytes: &[u8],
) -> Result<(ProcedureForm, &[u8]), Stop>
    ensures reads { Finds (λ x. (x.0, x.1.now)) result (mapped (body_form (version == 4)) (body_by (version == 4) version facts is_main region)) bytes.now }
    ensures block { IfErr result (StopsIn (InBody number version facts is_main region bytes.now)) }
{
    let part = Part::Procedure(number);
    let (base, rest) = walk_base(part, version, is_main, region, bytes)?;
    let (form, end) = walk_needed(number, version, facts, base, is_main, region, rest)?;
    Ok((form, end))
}

/// Passes over the procedure with this number, which begins at one of so many nodes, in a certificate of so many facts: what the
/// spelling of its states depends on.
#[tactic(auto, using(crate::proofs::ProcedureLaws::walk_procedure))]
fn walk_procedure(
    number: u16,
    head: AnyHead,
    facts: u16,
    is_main: bool,
    bytes: &[u8],
) -> Result<(ProcedureForm, &[u8]), Stop>
    ensures reads { Finds (λ x. (x.0, x.1.now)) result (mapped (form_if (head.version == 4)) (procedure_by (head.version == 4) head.version facts head.region head.nodes is_main)) bytes.now }
    ensures block { IfErr result (StopsIn (InProcedure number (head_in head) facts is_main bytes.now)) }
{
    let AnyHead {
        version,
        region,
        nodes,
        ..
    } = head;
    match entry_at(version, nodes, bytes) {
        Ok((_entry, rest)) => {
            let (form, end) = walk_body(number, version, facts, is_main, region, rest)?;
            Ok((form, end))
        }
        Err(fault) => {
            let block = Block::Entry { version, nodes };
            Err(stopped(Part::Procedure(number), block, fault, bytes))
        }
    }
}

/// Passes over the procedures of a certificate of so many facts: what the spelling of the states of each depends on.
#[tactic(auto, unfolding(gb_states::specs::WholeReading::procedures_at))]
fn walk_procedures(head: AnyHead, facts: u16, bytes: &[u8]) -> Result<(Forms, &[u8]), Stop>
    ensures reads { Finds (λ x. (x.0.items, x.1.now)) result (mapped (forms_if (head.version == 4)) (procedures_at (head_in head) facts)) bytes.now }
    ensures block { IfErr result (StopsIn (InProcedures (head_in head) facts bytes.now)) }
{
    let mut forms = Forms::new();
    let mut is_main = true;
    let mut rest = bytes;
    for number in 0..head.procedures {
        let (form, after) = walk_procedure(number, head, facts, is_main, rest)?;
        forms.push(form);
        is_main = false;
        rest = after;
    }
    Ok((forms, rest))
}

// ---- nodes

/// The form of the procedure with this number.
fn form_in(forms: &[ProcedureForm], number: u16) -> ProcedureForm
    ensures { result ≡ form_in forms.now number }
{
    match forms.get(number as usize) {
        Some(form) => *form,
        None => NO_FORM,
    }
}

/// What a node of this procedure is for.
fn role_of(procedure: u16) -> Role
    ensures { result ≡ role_of procedure }
{
    if procedure == 0 {
        Role::Main
    } else {
        Role::Other
    }
}

/// Passes over the node with this number, in a certificate of so many facts whose procedures have these forms, and finds its key.
#[tactic(auto, using(crate::proofs::NodeLaws::walk_node))]
fn walk_node<'a>(
    number: u32,
    head: AnyHead,
    facts: u16,
    forms: &[ProcedureForm],
    before: (u16, u16),
    bytes: &'a [u8],
) -> Result<((u16, u16), &'a [u8]), Stop>
    ensures reads { Finds (λ x. (x.0, x.1.now)) result (mapped key (node_by (head.version == 4) head.version facts (form_in forms.now) head.region head.procedures before)) bytes.now }
    ensures block { IfErr result (StopsIn (Of (the_part.Node number) (InNode (head_in head) facts forms.now before bytes.now))) }
{
    let part = Part::Node(number);
    let (key, rest) = match key_by(head.version, head.procedures, before, bytes) {
        Ok(x) => x,
        Err(fault) => {
            let block = Block::Key {
                version: head.version,
                procedures: head.procedures,
                before,
            };
            return Err(stopped(part, block, fault, bytes));
        }
    };
    let rest = match word_between(0, 511, rest) {
        Ok((_bank, after)) => after,
        Err(fault) => return Err(stopped(part, Block::Bank, fault, rest)),
    };
    let form = Form::of(head.version, facts, form_in(forms, key.0));
    let rest = walk_state(part, form, role_of(key.0), head.region, rest)?;
    Ok((key, rest))
}

/// Passes over the nodes behind the procedures.
#[tactic(auto, unfolding(gb_states::specs::WholeReading::nodes_at))]
fn walk_nodes<'a>(
    head: AnyHead,
    facts: u16,
    forms: &[ProcedureForm],
    bytes: &'a [u8],
) -> Result<&'a [u8], Stop>
    ensures reads { Walks (λ x. x.now) result (nodes_at (head_in head) facts forms.now) bytes.now }
    ensures block { IfErr result (StopsIn (InNodes (head_in head) facts forms.now bytes.now)) }
{
    let mut before = (0, 0);
    let mut rest = bytes;
    for number in 0..head.nodes {
        let (key, after) = walk_node(number, head, facts, forms, before, rest)?;
        before = key;
        rest = after;
    }
    Ok(rest)
}

// ---- certificates

/// Passes over so many facts.
fn walk_some_facts(region: Region, count: u16, bytes: &[u8]) -> Result<&[u8], Stop>
    ensures reads { Walks (λ x. x.now) result (several {S = Unit {0}} (λ s. fact_at region) (λ f. tt) tt count) bytes.now }
    ensures block { IfErr result (StopsIn (AmongFacts region count bytes.now)) }
{
    let mut rest = bytes;
    for index in 0..count {
        match fact_at(region, rest) {
            Ok((_fact, after)) => rest = after,
            Err(fault) => {
                let block = Block::Fact { region };
                return Err(stopped(Part::Fact(index), block, fault, rest));
            }
        }
    }
    Ok(rest)
}

/// Passes over the facts, which version 4 has: how many there are.
#[tactic(auto, using(crate::proofs::NamedLaws::walk_facts))]
fn walk_facts(version: u8, region: Region, bytes: &[u8]) -> Result<(u16, &[u8]), Stop>
    ensures reads { Finds (λ x. (x.0, x.1.now)) result (mapped length (facts_by (version == 4) region)) bytes.now }
    ensures block { IfErr result (StopsIn (InFacts version region bytes.now)) }
{
    if version != 4 {
        return Ok((0, bytes));
    }
    match word_count_within(FACT_LIMIT, bytes) {
        Ok((count, rest)) => {
            let end = walk_some_facts(region, count, rest)?;
            Ok((count, end))
        }
        Err(fault) => Err(stopped(Part::Head, Block::FactCount, fault, bytes)),
    }
}

/// The version that stands in the head, 1 where the bytes end before it.
fn version_in(bytes: &[u8]) -> u8
    ensures { result ≡ slice_index_or bytes.now 4 1 }
{
    match bytes.get(4) {
        Some(number) => *number,
        None => 1,
    }
}

/// Passes over the head, the facts, the procedures and the nodes.
#[tactic(auto, using(crate::proofs::PlaceLaws::walk_parts))]
pub fn walk_parts(bytes: &[u8]) -> Result<&[u8], Stop>
    ensures reads { Walks (λ x. x.now) result parts_at bytes.now }
    ensures block { IfErr result (StopsIn (InCertificate bytes.now)) }
{
    match any_head_at(bytes) {
        Ok((head, rest)) => {
            let (facts, rest) = walk_facts(head.version, head.region, rest)?;
            let (forms, rest) = walk_procedures(head, facts, rest)?;
            let end = walk_nodes(head, facts, forms.as_slice(), rest)?;
            Ok(end)
        }
        Err(fault) => {
            let block = Block::Head {
                version: version_in(bytes),
            };
            Err(stopped(Part::Head, block, fault, bytes))
        }
    }
}
