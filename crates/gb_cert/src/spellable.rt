//! What a version of the format can't say of states and procedures that are to be written.

ghost use Rattle.std.specs.Prelude.{◌≡◌, ◌||◌, ◌&&◌, true, false, not, nat_lt, length, OnOk, IfErr};
ghost use Rattle.std.specs.List.{list_any, list_all};
ghost use Rattle.gb_domain.specs.RelationRules.{is_a_alone, is_test_byte, is_known, are_unknown, is_test_alone};
ghost use Rattle.gb_states.specs.Below.gb_fields.Rules.{usual_base, is_whole};
ghost use Rattle.gb_states.specs.Below.gb_fields.Limits.{kept_limit};
ghost use Rattle.gb_states.specs.Links.{is_plain, is_based, may_be_linked, are_linked};
ghost use Rattle.gb_states.specs.Rules.{is_declared_origin, may_be_of, is_sayable, is_all_or_none, may_be_known};
ghost use Rattle.gb_states.specs.WholeRules.{is_origin_in};
ghost use Rattle.gb_cert.specs.Written.{exit_of, is_odd, is_half, has_many_items, has_many_cells, says_relations, is_related, has_unsayable, is_unspellable, state_has, exit_has, returns_with, stands_with, has_half_need, says_base, say_base, rules_in, is_fourth, is_tagged, says, says_registers, says_kept_by, says_core, says_cell, says_summary_by, says_state, AreSpellable, IsWriteFault};

use crate::told::is_known;
use crate::writer::{CertificatePlan, NodePlan, ProcedurePlan, Version, WriteFault};
use gb_domain::pairs::{Link, Pairs};
use gb_domain::places::{OneByte, Test, has_place};
use gb_domain::relations::Relations;
use gb_domain::summary::Summary;
use gb_domain::types::{Abs, Cell, Core, KeptBanks, Origin, Rules, Val};
use gb_ops::machine::Region;
use gb_ops::registers::Registers;
use gb_states::limits::KEPT_LIMIT;
use gb_states::relations::{reads_other, reads_register};

// ---- relations

fn is_a_alone(registers: &Registers<bool>) -> bool
    ensures { result ≡ is_a_alone registers.now }
{
    let others = registers.b
        || registers.c
        || registers.d
        || registers.e
        || registers.h
        || registers.l;
    registers.a && !others
}

/// Whether there is no place, or A alone, compared with a byte.
fn is_test_byte(byte: &OneByte) -> bool
    ensures { result ≡ is_test_byte byte.now.test byte.now }
{
    match byte.test {
        None => !has_place(byte),
        Some(Test::Compare(_)) => byte.address.is_none() && is_a_alone(&byte.registers),
        Some(Test::Bits(_)) => false,
    }
}

fn are_unknown(pairs: &Pairs) -> bool
    ensures { result ≡ are_unknown pairs.now }
{
    !is_known(&pairs.bc) && !is_known(&pairs.de) && !is_known(&pairs.hl)
}

/// Whether nothing is known of several parts together but a test of A.
fn is_test_alone(relations: &Relations) -> bool
    ensures { result ≡ is_test_alone relations.now }
{
    is_test_byte(&relations.byte) && relations.zero.is_none() && are_unknown(&relations.pairs)
}

/// Whether versions 1 to 3 can say a link: it reads a register or another pair, has no base, and has one sum.
fn is_plain(link: &Link) -> bool
    ensures { result ≡ is_plain link.now }
{
    reads_register(link.other) && link.base.is_none() && link.width == 0
}

/// Whether version 4 can: one that reads nothing else has a base, and no field for a factor.
fn is_based(link: &Link) -> bool
    ensures { result ≡ is_based link.now }
{
    reads_other(link.other) || link.base.is_some() && link.factor == 1
}

fn may_be_linked(is_fourth: bool, link: Option<Link>) -> bool
    ensures { result ≡ may_be_linked is_fourth link }
{
    match link {
        None => true,
        Some(link) => {
            if is_fourth {
                is_based(&link)
            } else {
                is_plain(&link)
            }
        }
    }
}

fn are_linked(is_fourth: bool, pairs: &Pairs) -> bool
    ensures { result ≡ are_linked is_fourth pairs.now }
{
    may_be_linked(is_fourth, pairs.bc.link)
        && may_be_linked(is_fourth, pairs.de.link)
        && may_be_linked(is_fourth, pairs.hl.link)
}

fn may_be_known(rules: Rules, relations: &Relations) -> bool
    ensures { result ≡ may_be_known rules relations.now }
{
    match rules {
        Rules::Simple => is_test_alone(relations),
        Rules::Extended => are_linked(false, &relations.pairs),
    }
}

fn says_relations(version: Version, relations: &Relations) -> bool
    ensures { result ≡ says_relations version relations.now }
{
    if version.is_fourth() {
        are_linked(true, &relations.pairs)
    } else {
        may_be_known(version.rules(), relations)
    }
}

// ---- values

/// Whether it is of what a procedure declares for itself, which versions 1 to 3 can't say: a byte to be kept, or its mark.
fn is_declared_origin(origin: Option<Origin>) -> bool
    ensures { result ≡ is_declared_origin origin }
{
    matches!(
        origin,
        Some(Origin::Kept(_)) | Some(Origin::MarkHigh) | Some(Origin::MarkLow)
    )
}

/// Whether there is what a value is a copy of by these rules.
fn may_be_of(rules: Rules, origin: Option<Origin>) -> bool
    ensures { result ≡ may_be_of rules origin }
{
    match rules {
        Rules::Simple => {
            let is_of_return = matches!(origin, Some(Origin::ReturnHigh) | Some(Origin::ReturnLow));
            !(is_of_return || is_declared_origin(origin))
        }
        Rules::Extended => !is_declared_origin(origin),
    }
}

/// Whether these rules' versions 1 to 3 can say a value.
fn is_sayable(rules: Rules, val: Val) -> bool
    ensures { result ≡ is_sayable rules val }
{
    may_be_of(rules, val.origin) && val.low_bits == 0
}

/// Whether version 4 has a number for the origin, however many addresses its procedure names.
fn is_numbered(origin: Option<Origin>) -> bool
    ensures { result ≡ is_origin_in kept_limit origin }
{
    match origin {
        Some(Origin::Kept(number)) => number < KEPT_LIMIT,
        _ => true,
    }
}

/// Whether version 4 can say a value.
fn is_tagged(val: Val) -> bool
    ensures { result ≡ is_tagged val }
{
    val.low_bits < 8 && is_numbered(val.origin)
}

fn says(version: Version, val: Val) -> bool
    ensures { result ≡ says version val }
{
    if version.is_fourth() {
        is_tagged(val)
    } else {
        is_sayable(version.rules(), val)
    }
}

fn says_registers(version: Version, registers: &Registers<Val>) -> bool
    ensures { result ≡ says_registers version registers.now }
{
    says(version, registers.a)
        && says(version, registers.b)
        && says(version, registers.c)
        && says(version, registers.d)
        && says(version, registers.e)
        && says(version, registers.h)
        && says(version, registers.l)
}

/// Whether one byte can say what is kept of the controller.
fn is_all_or_none(kept: KeptBanks) -> bool
    ensures { result ≡ is_all_or_none kept }
{
    kept.are_all() || !kept.is_some()
}

fn says_kept(version: Version, kept: KeptBanks) -> bool
    ensures { result ≡ says_kept_by (is_fourth version) kept }
{
    version.is_fourth() || is_all_or_none(kept)
}

fn says_core(version: Version, core: &Core) -> bool
    ensures { result ≡ says_core version core.now }
{
    says_kept(version, core.ctl.kept)
        && says(version, core.ie)
        && says_registers(version, &core.registers)
}

fn says_items(version: Version, items: &[Val]) -> bool
    ensures { result ≡ list_all (says version) items.now }
{
    for item in items {
        if !says(version, *item) {
            return false;
        }
    }
    true
}

fn says_cells(version: Version, cells: &[Cell]) -> bool
    ensures { result ≡ list_all (says_cell version) cells.now }
{
    for cell in cells {
        if !says(version, cell.val) {
            return false;
        }
    }
    true
}

fn says_summary(version: Version, summary: &Summary) -> bool
    ensures { result ≡ says_summary_by (is_fourth version) summary.now }
{
    version.is_fourth() || summary.is_silent()
}

fn says_state(version: Version, state: &Abs) -> bool
    ensures { result ≡ says_state version state.now }
{
    says_core(version, state.core())
        && says_items(version, state.items())
        && says_cells(version, state.cells())
        && says_summary(version, state.summary())
}

// ---- states

/// Whether so many bytes can't be counted.
#[tactic(auto, unfolding(crate::specs::Opened::unit))]
fn is_odd(rules: Rules, bytes: usize) -> bool
    ensures { result ≡ is_odd rules bytes }
{
    match rules {
        Rules::Simple => bytes % 2 == 1,
        Rules::Extended => false,
    }
}

/// Nothing, where the version can say the state, or else why it can't.
fn check_state(version: Version, state: &Abs) -> Result<(), WriteFault>
    ensures spelled { OnOk result (is_unspellable version state.now ≡ false) }
    ensures fault { IfErr result (λ fault. state_has version fault state.now ≡ true) }
{
    let rules = version.rules();
    if is_odd(rules, state.items().len()) {
        return Err(WriteFault::HalfWord);
    }
    if state.items().len() > rules.item_room() {
        return Err(WriteFault::Items);
    }
    if state.cells().len() > rules.cell_room() {
        return Err(WriteFault::Cells);
    }
    if !says_relations(version, state.relations()) {
        return Err(WriteFault::Relations);
    }
    if !says_state(version, state) {
        return Err(WriteFault::Values);
    }
    Ok(())
}

/// Nothing, where the version can say all nodes' states, or else why it can't.
fn check_nodes(version: Version, nodes: &[NodePlan<'_>]) -> Result<(), WriteFault>
    ensures spelled { OnOk result (list_any (stands_with (is_unspellable version)) nodes.now ≡ false) }
    ensures fault { IfErr result (λ fault. list_any (stands_with (state_has version fault)) nodes.now ≡ true) }
{
    for node in nodes {
        check_state(version, node.state)?;
    }
    Ok(())
}

/// Nothing, where the version can say an exit's state, if there is one, or else why it can't.
fn check_exit(version: Version, exit: Option<&Abs>) -> Result<(), WriteFault>
    ensures spelled { OnOk result (exit_has (is_unspellable version) (exit_of exit.entry) ≡ false) }
    ensures fault { IfErr result (λ fault. exit_has (state_has version fault) (exit_of exit.entry) ≡ true) }
{
    match exit {
        None => Ok(()),
        Some(state) => check_state(version, state),
    }
}

/// Nothing, where the version can say all exits' states, or else why it can't.
fn check_exits(version: Version, procedures: &[ProcedurePlan<'_>]) -> Result<(), WriteFault>
    ensures spelled { OnOk result (list_any (returns_with (is_unspellable version)) procedures.now ≡ false) }
    ensures fault { IfErr result (λ fault. list_any (returns_with (state_has version fault)) procedures.now ≡ true) }
{
    for procedure in procedures {
        check_exit(version, procedure.exit)?;
    }
    Ok(())
}

// ---- procedures

fn has_half_need(rules: Rules, procedure: &ProcedurePlan<'_>) -> bool
    ensures { result ≡ has_half_need rules procedure.now }
{
    is_odd(rules, procedure.need as usize)
}

fn is_one_half_need(rules: Rules, procedures: &[ProcedurePlan<'_>]) -> bool
    ensures { result ≡ list_any (has_half_need rules) procedures.now }
{
    for procedure in procedures {
        if has_half_need(rules, procedure) {
            return true;
        }
    }
    false
}

/// Whether the procedure has another base than versions 1 and 2 mean.
fn says_base(rules: Rules, is_main: bool, region: Region, procedure: &ProcedurePlan<'_>) -> bool
    ensures { result ≡ says_base rules is_main region procedure.now }
{
    match rules {
        Rules::Simple => {
            let usual = if is_main { region.last as u32 + 1 } else { 0 };
            procedure.base as u32 != usual
        }
        Rules::Extended => false,
    }
}

fn is_one_base(rules: Rules, region: Region, procedures: &[ProcedurePlan<'_>]) -> bool
    ensures { result ≡ list_any (says_base rules false region) procedures.now }
{
    for procedure in procedures {
        if says_base(rules, false, region, procedure) {
            return true;
        }
    }
    false
}

/// Whether one of them has; the first is main.
fn say_base(rules: Rules, region: Region, procedures: &[ProcedurePlan<'_>]) -> bool
    ensures { result ≡ say_base rules region procedures.now }
{
    match procedures {
        [] => false,
        [main, others @ ..] => {
            says_base(rules, true, region, main) || is_one_base(rules, region, others)
        }
    }
}

/// Nothing, where the version can say these parts, or else why it can't.
#[tactic(auto, using(crate::proofs::Refusing::spellable, crate::proofs::Refusing::faults))]
pub(crate) fn check(plan: &CertificatePlan<'_>) -> Result<(), WriteFault>
    ensures spelled { OnOk result (AreSpellable plan.now) }
    ensures fault { IfErr result (IsWriteFault plan.now) }
{
    let rules = plan.version.rules();
    if say_base(rules, plan.region, plan.procedures) {
        return Err(WriteFault::Base);
    }
    if is_one_half_need(rules, plan.procedures) {
        return Err(WriteFault::HalfWord);
    }
    check_exits(plan.version, plan.procedures)?;
    check_nodes(plan.version, plan.nodes)?;
    Ok(())
}
