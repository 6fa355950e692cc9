//! Nodes and procedures of a certificate of version 1, 2 or 3, in the bytes of version 4.

ghost use Rattle.std.specs.Prelude.{◌≡◌, ◌≤◌, ◌+◌, ◌*◌, ◌∷◌, [], ◌++◌, true, false, length, IfSome};
ghost use Rattle.std.specs.List.{flat_map};
ghost use Rattle.arrayvec.specs.ArrayVec.{array_vec_len};
ghost use Rattle.gb_domain.specs.declared.rules.Rules.TheVariants.{Extended};
ghost use Rattle.gb_domain.specs.RelationRules.{compared};
ghost use Rattle.gb_command_line.specs.Below.gb_verify.Below.gb_states.Numbers as number;
ghost use Rattle.gb_command_line.specs.Below.gb_verify.Below.gb_states.Rules.{is_core_sayable};
ghost use Rattle.gb_command_line.specs.Below.gb_verify.Below.gb_states.Spelling as spelled;
ghost use Rattle.gb_command_line.specs.Below.gb_verify.Below.gb_states.WholeSpelling as whole;
ghost use Rattle.gb_command_line.specs.Below.gb_verify.Widened.{below_items, above_return_word};
ghost use Rattle.gb_program.specs.Fourth.{fourth_ctl, fourth_state, fourth_node, fourth_procedure, has_return_word, widened_node_by, widened_procedure_by, AddsExit, AddsState, IsNodeText, IsOlder, IsProcedureText};

use crate::fourth_told::{Text, flag, push, push_told, word};
use arrayvec::ArrayVec;
use gb_domain::types::{Ctl, KeptBanks, Range, Rules};
use gb_events::gb_trace::gb_calls::{NodeRef, ProcedureRef, StateRef};

/// The most bytes of stack that a procedure needs.
const NEED_LIMIT: u16 = 8192;

/// Where in a core's bytes stand the bounds of its bank, and what is kept of the controller.
const BANK: usize = 5;

const KEPT: usize = 13;

/// A number of 32 bits, its lowest byte first.
pub fn quad(quad: u32) -> [u8; 4]
    ensures { result ≡ number.quad quad }
{
    let low = quad % 65536;
    let high = quad / 65536;
    [
        (low % 256) as u8,
        (low / 256) as u8,
        (high % 256) as u8,
        (high / 256) as u8,
    ]
}

// ---- states

/// The bounds of the bank: those of any bank where the ends differ in the ninth bit.
#[tactic(auto, unfolding(crate::specs::Fourth::fourth_ctl))]
fn bank_bounds(ctl: &Ctl) -> (u16, u16)
    ensures first { result.0 ≡ (fourth_ctl ctl.now).bank_lo }
    ensures last { result.1 ≡ (fourth_ctl ctl.now).bank_hi }
{
    if ctl.bank_lo / 256 == ctl.bank_hi / 256 {
        (ctl.bank_lo, ctl.bank_hi)
    } else {
        (0, 0x1FF)
    }
}

/// What is kept of the controller, a bit for each of its registers, and one for the bank's ninth bit.
fn kept_number(kept: KeptBanks) -> u8
    ensures { result ≡ whole.kept_number kept }
{
    16 * flag(kept.high_bank)
        + 8 * flag(kept.mode)
        + 4 * flag(kept.gate)
        + 2 * flag(kept.second)
        + flag(kept.bank)
}

/// The bytes of a state's core, with its test.
fn core_bytes(state: &StateRef<'_>) -> [u8; 40]
    requires { is_core_sayable Extended state.now.core ≡ true }
    ensures { result ≡ whole.core (fourth_state state.now).core (compared state.now.relations.byte.test) }
{
    let ctl = state.known_core().ctl;
    let (first, last) = bank_bounds(&ctl);
    let mut core = state.older_core();
    core[BANK] = (first % 256) as u8;
    core[BANK + 1] = (first / 256) as u8;
    core[BANK + 2] = (last % 256) as u8;
    core[BANK + 3] = (last / 256) as u8;
    core[KEPT] = kept_number(ctl.kept);
    core
}

/// What lies below the items: where the procedure was entered its return word, any two bytes that are copies of it.
#[tactic(auto, unfolding(crate::specs::Opened::val))]
fn below_items(is_entered: bool) -> &'static [u8]
    ensures text { result.now ≡ flat_map spelled.val (below_items is_entered) }
    ensures long { length result.now ≡ 3 * length (below_items is_entered) }
{
    if is_entered {
        &[0, 255, 10, 0, 255, 11]
    } else {
        &[]
    }
}

/// How many items there are then.
fn item_count(state: &StateRef<'_>, is_entered: bool) -> u8
    requires { length (below_items is_entered ++ state.now.items) ≤ 255 }
    ensures { result ≡ length (below_items is_entered ++ state.now.items) }
{
    state.item_count() + if is_entered { 2 } else { 0 }
}

/// Adds items after their number, with the return word below them where the procedure was entered.
fn push_items(state: &StateRef<'_>, is_entered: bool, out: &mut Text)
    requires older { IsOlder is_entered state.now }
    requires room { array_vec_len out.old ≤ 84 }
    ensures text { out.new.items ≡ out.old.items ++ spelled.counted whole.val (below_items is_entered ++ state.now.items) }
    ensures room { array_vec_len out.new ≤ array_vec_len out.old + 766 }
{
    push(&[item_count(state, is_entered)], out);
    push(below_items(is_entered), out);
    push(state.items(), out);
}

/// Adds cells after their number.
fn push_cells(state: &StateRef<'_>, out: &mut Text)
    requires older { IsOlder false state.now }
    requires room { array_vec_len out.old ≤ 896 }
    ensures text { out.new.items ≡ out.old.items ++ spelled.counted whole.cell state.now.cells }
    ensures room { array_vec_len out.new ≤ array_vec_len out.old + 321 }
{
    push(&[state.cell_count()], out);
    push(state.cells(), out);
}

/// Adds a state, with the return word below its items where the procedure was entered.
fn push_state(state: &StateRef<'_>, is_entered: bool, out: &mut Text)
    requires older { IsOlder is_entered state.now }
    requires room { array_vec_len out.old ≤ 44 }
    ensures { AddsState out.old.items out.new.items state.now (fourth_state (above_return_word is_entered state.now)) }
{
    push(&core_bytes(state), out);
    push_items(state, is_entered, out);
    push_told(&state.relations(), out);
    push_cells(state, out);
}

// ---- nodes

/// Whether version 3 puts the return word below the items of a node's state.
fn has_return_word(rules: Rules, number: u16) -> bool
    ensures { result ≡ has_return_word rules number }
{
    match rules {
        Rules::Simple => number != 0,
        Rules::Extended => false,
    }
}

/// A node under a new number of its procedure.
pub fn node_text(rules: Rules, node: &NodeRef<'_>, number: u16) -> Text
    requires { IsOlder (has_return_word rules node.now.procedure) node.now.state }
    ensures { IsNodeText result.items node.now.state (fourth_node number (widened_node_by rules node.now)) }
{
    let is_entered = has_return_word(rules, node.procedure());
    let mut text = ArrayVec::new();
    push(&word(number), &mut text);
    push(&word(node.address()), &mut text);
    push(&word(node.bank()), &mut text);
    push_state(&node.lent(), is_entered, &mut text);
    text
}

// ---- procedures

/// What a procedure needs of the stack.
#[tactic(auto, unfolding(crate::specs::Opened::widened_procedure))]
fn need(rules: Rules, procedure: &ProcedureRef<'_>, is_main: bool) -> u16
    ensures { result ≡ (widened_procedure_by rules is_main procedure.now).need }
{
    match rules {
        Rules::Simple if !is_main => procedure.need().saturating_add(2).min(NEED_LIMIT),
        _ => procedure.need(),
    }
}

/// Adds ranges after their number.
#[tactic(auto, unfolding(crate::specs::Opened::range))]
fn push_ranges(ranges: &[Range], out: &mut Text)
    requires few { length ranges.now ≤ 8 }
    requires room { array_vec_len out.old ≤ 8 }
    ensures text { out.new.items ≡ out.old.items ++ spelled.counted spelled.range ranges.now }
    ensures room { array_vec_len out.new ≤ array_vec_len out.old + 33 }
{
    push(&[ranges.len() as u8], out);
    for range in ranges {
        push(&word(range.first), out);
        push(&word(range.last), out);
    }
}

/// Adds the ranges that a procedure declares: from version 3 on main declares none.
#[tactic(auto, unfolding(crate::specs::Opened::widened_procedure))]
fn push_declared(rules: Rules, procedure: &ProcedureRef<'_>, is_main: bool, out: &mut Text)
    requires room { array_vec_len out.old ≤ 8 }
    ensures text { out.new.items ≡ out.old.items ++ spelled.counted spelled.range (widened_procedure_by rules is_main procedure.now).ranges }
    ensures room { array_vec_len out.new ≤ array_vec_len out.old + 33 }
{
    match rules {
        Rules::Simple if is_main => push(&[0], out),
        _ => push_ranges(procedure.ranges().as_slice(), out),
    }
}

/// Adds in what state a procedure returns, if it does.
fn push_exit(procedure: &ProcedureRef<'_>, out: &mut Text)
    requires older { IfSome procedure.now.exit (IsOlder false) }
    requires room { array_vec_len out.old ≤ 43 }
    ensures { AddsExit out.old.items out.new.items procedure.now.exit }
{
    match procedure.lent_exit() {
        None => push(&[0], out),
        Some(state) => {
            push(&[1], out);
            push_state(&state, false, out);
        }
    }
}

/// A procedure with a new number of its entry. It names no addresses to be kept, and its mark is 0.
pub fn procedure_text(rules: Rules, procedure: &ProcedureRef<'_>, is_main: bool, entry: u32) -> Text
    requires older { IfSome procedure.now.exit (IsOlder false) }
    requires kept { procedure.now.kept ≡ [] }
    requires mark { procedure.now.mark ≡ 0 }
    ensures { IsProcedureText result.items procedure.now.exit (fourth_procedure entry (widened_procedure_by rules is_main procedure.now)) }
{
    let mut text = ArrayVec::new();
    push(&quad(entry), &mut text);
    push(&word(procedure.base()), &mut text);
    push(&word(need(rules, procedure, is_main)), &mut text);
    push_declared(rules, procedure, is_main, &mut text);
    push(&[0, 0], &mut text);
    push_exit(procedure, &mut text);
    text
}
