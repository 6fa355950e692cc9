//! A certificate of version 1 or 2 in version 3 of its format.

ghost use Rattle.std.specs.Prelude.{◌≡◌, ◌==◌, ◌≤◌, ◌∷◌, ◌++◌, false, is_err, length, map, IfSome, OnOk, OnErr};
ghost use Rattle.std.specs.List.{flat_map};
ghost use Rattle.gb_rules.specs.Below.gb_domain.declared.rules.Rules.TheVariants.{Simple, Extended};
ghost use Rattle.gb_rules.specs.Below.gb_domain.Limits.{rules_of};
ghost use Rattle.gb_rules.specs.Below.gb_states.RelationSpelling.{relations};
ghost use Rattle.gb_rules.specs.Below.gb_states.Rules.{IsCertificate};
ghost use Rattle.gb_rules.specs.Below.gb_states.Spelling as spelled;
ghost use Rattle.gb_text.specs.Sink.{Gains};
ghost use Rattle.gb_text.specs.Text.{GainsBeginning};
ghost use Rattle.gb_verify.specs.Widened.{above_return_word, below_items, widened_need, widened_node, widened_procedure, widened_procedures, widened, IsNarrow};

use gb_rules::{Cert, NodeRef, ProcedureRef, Range, StateRef};
use gb_text::put::put_all;
use gb_text::sink::{OutFault, Sink};

/// The most bytes of stack that a procedure needs.
const NEED_LIMIT: u16 = 8192;

/// What lies below the items: where the procedure was entered its return word, any two bytes that are copies of it.
#[tactic(auto, unfolding(crate::specs::Opened::val))]
fn below_items(is_entered: bool) -> &'static [u8]
    ensures { result.now ≡ flat_map spelled.val (below_items is_entered) }
{
    if is_entered {
        &[0, 255, 10, 0, 255, 11]
    } else {
        &[]
    }
}

/// How many items there are then.
fn item_count(state: &StateRef<'_>, is_entered: bool) -> u8
    requires narrow { IsNarrow state.now }
    ensures { result ≡ length (below_items is_entered ++ state.now.items) }
{
    state.item_count() + if is_entered { 2 } else { 0 }
}

/// Writes items, with the return word below them where the procedure was entered.
fn put_items<W: Sink>(state: &StateRef<'_>, is_entered: bool, out: &mut W) -> Result<(), OutFault>
    requires works { W.has_failed out.old ≡ false }
    requires narrow { IsNarrow state.now }
    ensures whole { OnOk result (Gains (W.contents out.old) (spelled.items Extended (below_items is_entered ++ state.now.items)) (W.contents out.new)) }
    ensures beginning { OnErr result (GainsBeginning (W.contents out.old) (spelled.items Extended (below_items is_entered ++ state.now.items)) (W.contents out.new)) }
    ensures failed { W.has_failed out.new ≡ is_err result }
{
    put_all(out, &[item_count(state, is_entered)])?;
    put_all(out, below_items(is_entered))?;
    put_all(out, state.items())
}

/// What is known of several parts together: A holds the one byte of the test, or there is none.
fn told(state: &StateRef<'_>) -> &'static [u8]
    requires narrow { IsNarrow state.now }
    ensures { result.now ≡ relations state.now.relations }
{
    match state.test() {
        None => &[0],
        Some(_) => &[1, 1],
    }
}

/// Writes cells behind their number.
#[tactic(auto, using(gb_text::proofs::Gained::gains_both, gb_text::proofs::Gained::begins_first, gb_text::proofs::Gained::begins_second))]
fn put_cells<W: Sink>(state: &StateRef<'_>, out: &mut W) -> Result<(), OutFault>
    requires works { W.has_failed out.old ≡ false }
    requires narrow { IsNarrow state.now }
    ensures whole { OnOk result (Gains (W.contents out.old) (spelled.counted spelled.cell state.now.cells) (W.contents out.new)) }
    ensures beginning { OnErr result (GainsBeginning (W.contents out.old) (spelled.counted spelled.cell state.now.cells) (W.contents out.new)) }
    ensures failed { W.has_failed out.new ≡ is_err result }
{
    put_all(out, &[state.cell_count()])?;
    put_all(out, state.cells())
}

/// Writes a state of version 1 or 2 in version 3.
#[tactic(auto, using(gb_text::proofs::Gained::gains_both, gb_text::proofs::Gained::begins_first, gb_text::proofs::Gained::begins_second), unfolding(crate::specs::Opened::state))]
fn put_state<W: Sink>(state: &StateRef<'_>, is_entered: bool, out: &mut W) -> Result<(), OutFault>
    requires works { W.has_failed out.old ≡ false }
    requires narrow { IsNarrow state.now }
    ensures whole { OnOk result (Gains (W.contents out.old) (spelled.state Extended (above_return_word is_entered state.now)) (W.contents out.new)) }
    ensures beginning { OnErr result (GainsBeginning (W.contents out.old) (spelled.state Extended (above_return_word is_entered state.now)) (W.contents out.new)) }
    ensures failed { W.has_failed out.new ≡ is_err result }
{
    put_all(out, &state.older_core())?;
    put_items(state, is_entered, out)?;
    put_all(out, told(state))?;
    put_cells(state, out)
}

/// What stands before a node's state: versions 1 to 3 spell its procedure in one byte.
#[tactic(auto, unfolding(crate::specs::Opened::word))]
fn node_front(node: &NodeRef<'_>) -> [u8; 5]
    requires { node.now.procedure ≤ 255 }
    ensures { result ≡ (node.now.procedure ∷ spelled.word node.now.address) ++ spelled.word node.now.bank }
{
    let address = node.address();
    let bank = node.bank();
    [
        node.procedure() as u8,
        (address % 256) as u8,
        (address / 256) as u8,
        (bank % 256) as u8,
        (bank / 256) as u8,
    ]
}

/// Writes a node in version 3. Only main was never entered.
fn put_node<W: Sink>(node: &NodeRef<'_>, out: &mut W) -> Result<(), OutFault>
    requires works { W.has_failed out.old ≡ false }
    requires few { node.now.procedure ≤ 255 }
    requires narrow { IsNarrow node.now.state }
    ensures whole { OnOk result (Gains (W.contents out.old) (spelled.node Extended (widened_node node.now)) (W.contents out.new)) }
    ensures beginning { OnErr result (GainsBeginning (W.contents out.old) (spelled.node Extended (widened_node node.now)) (W.contents out.new)) }
    ensures failed { W.has_failed out.new ≡ is_err result }
{
    put_all(out, &node_front(node))?;
    put_state(&node.lent(), node.procedure() != 0, out)
}

/// A range: its first and its last address.
#[tactic(auto, unfolding(crate::specs::Opened::range, crate::specs::Opened::word))]
fn range_bytes(range: Range) -> [u8; 4]
    ensures { result ≡ spelled.range range }
{
    [
        (range.first % 256) as u8,
        (range.first / 256) as u8,
        (range.last % 256) as u8,
        (range.last / 256) as u8,
    ]
}

/// Writes ranges behind their number.
fn put_ranges<W: Sink>(ranges: &[Range], out: &mut W) -> Result<(), OutFault>
    requires works { W.has_failed out.old ≡ false }
    requires few { length ranges.now ≤ 8 }
    ensures whole { OnOk result (Gains (W.contents out.old) (spelled.counted spelled.range ranges.now) (W.contents out.new)) }
    ensures beginning { OnErr result (GainsBeginning (W.contents out.old) (spelled.counted spelled.range ranges.now) (W.contents out.new)) }
    ensures failed { W.has_failed out.new ≡ is_err result }
{
    put_all(out, &[ranges.len() as u8])?;
    for range in ranges {
        put_all(out, &range_bytes(*range))?;
    }
    Ok(())
}

/// Writes the ranges that a procedure declares: in version 3 main declares none.
#[tactic(auto, unfolding(crate::specs::Widened::widened_procedure))]
fn put_declared<W: Sink>(
    procedure: &ProcedureRef<'_>,
    is_main: bool,
    out: &mut W,
) -> Result<(), OutFault>
    requires works { W.has_failed out.old ≡ false }
    ensures whole { OnOk result (Gains (W.contents out.old) (spelled.counted spelled.range (widened_procedure is_main procedure.now).ranges) (W.contents out.new)) }
    ensures beginning { OnErr result (GainsBeginning (W.contents out.old) (spelled.counted spelled.range (widened_procedure is_main procedure.now).ranges) (W.contents out.new)) }
    ensures failed { W.has_failed out.new ≡ is_err result }
{
    if is_main {
        put_all(out, &[0])
    } else {
        put_ranges(procedure.ranges().as_slice(), out)
    }
}

/// Writes in what state a procedure returns, if it does.
#[tactic(auto, using(gb_text::proofs::Gained::gains_both, gb_text::proofs::Gained::begins_first, gb_text::proofs::Gained::begins_second), unfolding(crate::specs::Opened::exit))]
fn put_exit<W: Sink>(procedure: &ProcedureRef<'_>, out: &mut W) -> Result<(), OutFault>
    requires works { W.has_failed out.old ≡ false }
    requires narrow { IfSome procedure.now.exit IsNarrow }
    ensures whole { OnOk result (Gains (W.contents out.old) (spelled.exit Extended procedure.now.exit) (W.contents out.new)) }
    ensures beginning { OnErr result (GainsBeginning (W.contents out.old) (spelled.exit Extended procedure.now.exit) (W.contents out.new)) }
    ensures failed { W.has_failed out.new ≡ is_err result }
{
    match procedure.lent_exit() {
        None => put_all(out, &[0]),
        Some(state) => {
            put_all(out, &[1])?;
            put_state(&state, false, out)
        }
    }
}

/// What a procedure needs of the stack.
#[tactic(auto, unfolding(crate::specs::Widened::widened_procedure))]
fn need(procedure: &ProcedureRef<'_>, is_main: bool) -> u16
    ensures { result ≡ (widened_procedure is_main procedure.now).need }
{
    if is_main {
        procedure.need()
    } else {
        procedure.need().saturating_add(2).min(NEED_LIMIT)
    }
}

/// What stands before a procedure's ranges: the number of its entry, its base and its need.
#[tactic(auto, unfolding(crate::specs::Opened::node_number, crate::specs::Opened::word))]
fn procedure_front(procedure: &ProcedureRef<'_>, is_main: bool) -> [u8; 8]
    ensures { result ≡ spelled.node_number 3 procedure.now.entry ++ (spelled.word procedure.now.base ++ spelled.word (widened_procedure is_main procedure.now).need) }
{
    let low = procedure.entry() % 65536;
    let high = procedure.entry() / 65536;
    let base = procedure.base();
    let need = need(procedure, is_main);
    [
        (low % 256) as u8,
        (low / 256) as u8,
        (high % 256) as u8,
        (high / 256) as u8,
        (base % 256) as u8,
        (base / 256) as u8,
        (need % 256) as u8,
        (need / 256) as u8,
    ]
}

/// Writes a procedure in version 3.
fn put_procedure<W: Sink>(
    procedure: &ProcedureRef<'_>,
    is_main: bool,
    out: &mut W,
) -> Result<(), OutFault>
    requires works { W.has_failed out.old ≡ false }
    requires narrow { IfSome procedure.now.exit IsNarrow }
    ensures whole { OnOk result (Gains (W.contents out.old) (spelled.procedure 3 (widened_procedure is_main procedure.now)) (W.contents out.new)) }
    ensures beginning { OnErr result (GainsBeginning (W.contents out.old) (spelled.procedure 3 (widened_procedure is_main procedure.now)) (W.contents out.new)) }
    ensures failed { W.has_failed out.new ≡ is_err result }
{
    put_all(out, &procedure_front(procedure, is_main))?;
    put_declared(procedure, is_main, out)?;
    put_exit(procedure, out)
}

/// Writes all procedures in version 3.
fn put_procedures<W: Sink>(cert: &Cert<'_>, out: &mut W) -> Result<(), OutFault>
    requires works { W.has_failed out.old ≡ false }
    requires certificate { IsCertificate cert.now }
    requires simple { rules_of cert.now.version ≡ Simple }
    ensures whole { OnOk result (Gains (W.contents out.old) (flat_map (spelled.procedure 3) (widened_procedures cert.now.procedures)) (W.contents out.new)) }
    ensures beginning { OnErr result (GainsBeginning (W.contents out.old) (flat_map (spelled.procedure 3) (widened_procedures cert.now.procedures)) (W.contents out.new)) }
    ensures failed { W.has_failed out.new ≡ is_err result }
{
    for i in 0..cert.procedures() {
        put_procedure(&cert.procedure(i), i == 0, out)?;
    }
    Ok(())
}

/// Writes all nodes in version 3.
fn put_nodes<W: Sink>(cert: &Cert<'_>, out: &mut W) -> Result<(), OutFault>
    requires works { W.has_failed out.old ≡ false }
    requires certificate { IsCertificate cert.now }
    requires simple { rules_of cert.now.version ≡ Simple }
    ensures whole { OnOk result (Gains (W.contents out.old) (flat_map (spelled.node Extended) (map widened_node cert.now.nodes)) (W.contents out.new)) }
    ensures beginning { OnErr result (GainsBeginning (W.contents out.old) (flat_map (spelled.node Extended) (map widened_node cert.now.nodes)) (W.contents out.new)) }
    ensures failed { W.has_failed out.new ≡ is_err result }
{
    for i in 0..cert.nodes() {
        put_node(&cert.node(i), out)?;
    }
    Ok(())
}

/// Writes a certificate of version 1 or 2 in version 3, a node at a time.
pub(crate) fn put_widened<W: Sink>(cert: &Cert<'_>, out: &mut W) -> Result<(), OutFault>
    requires works { W.has_failed out.old ≡ false }
    requires certificate { IsCertificate cert.now }
    requires older { (cert.now.version == 4) ≡ false }
    requires simple { rules_of cert.now.version ≡ Simple }
    ensures whole { OnOk result (Gains (W.contents out.old) (spelled.spelling (widened cert.now)) (W.contents out.new)) }
    ensures beginning { OnErr result (GainsBeginning (W.contents out.old) (spelled.spelling (widened cert.now)) (W.contents out.new)) }
    ensures failed { W.has_failed out.new ≡ is_err result }
{
    put_all(out, &cert.head_in(3))?;
    put_procedures(cert, out)?;
    put_nodes(cert, out)
}
