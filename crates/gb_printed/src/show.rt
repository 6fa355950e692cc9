//! What a certificate claims, line by line.

ghost use Rattle.std.specs.Prelude.{◌≡◌, ◌+◌, ◌≤◌, ◌++◌, false, is_err, OnOk, OnErr, length, decimal, flat_map};
ghost use Rattle.gb_text.specs.Sink.{Gains};
ghost use Rattle.gb_text.specs.Text.{GainsBeginning};
ghost use Rattle.gb_printed.specs.Show.{hex_bank, base_text, told_need, stack_text, procedure_text, names_text, procedure_lines, fact_text, node_text, numbered, show_text};

use crate::header::yes_or_no;
use gb_domain::summary::Fact;
use gb_domain::types::Rules;
use gb_text::line::Line;
use gb_text::put::put_all;
use gb_text::sink::{OutFault, Sink};
use gb_watch::{Cert, NodeRef, ProcedureRef};

/// Puts a number below 65,536 at a line's end, in at most five digits.
fn push_small(line: &mut Line, number: u16)
    requires { length line.old + 20 ≤ 96 }
    ensures text { line.new ≡ line.old ++ decimal number }
    ensures short { length line.new ≤ length line.old + 5 }
{
    line.push_number(u64::from(number));
}

/// Puts a bank at a line's end, in three hexadecimal digits.
pub fn push_bank(line: &mut Line, bank: u16)
    requires { length line.old + 3 ≤ 96 }
    ensures text { line.new ≡ line.old ++ hex_bank bank }
    ensures length { length line.new ≡ length line.old + 3 }
{
    let mut digits = Line::new();
    digits.push_word(bank);
    line.push_text(&digits.as_slice()[1..]);
}

/// The line of a certificate's stack region and counts.
#[tactic(auto, unfolding(crate::specs::Show::stack_text))]
fn stack_line(cert: &Cert<'_>) -> Line
    ensures { result ≡ stack_text cert.now }
{
    let region = cert.region();
    let mut line = Line::new();
    line.push_text(b"stack ");
    line.push_word(region.first);
    line.push_text(b"..");
    line.push_word(region.last);
    line.push_text(b" procedures ");
    line.push_number(u64::from(cert.procedures()));
    line.push_text(b" nodes ");
    line.push_number(u64::from(cert.nodes()));
    line.end();
    line
}

/// Puts a base at a line's end, in version 3.
fn push_base(line: &mut Line, rules: Rules, base: u16)
    requires { length line.old + 10 ≤ 96 }
    ensures text { line.new ≡ line.old ++ base_text rules base }
    ensures short { length line.new ≤ length line.old + 10 }
{
    match rules {
        Rules::Simple => {}
        Rules::Extended => {
            line.push_text(b" base ");
            line.push_word(base);
        }
    }
}

/// A need, in words for versions 1 and 2, and in bytes for version 3.
fn told_need(rules: Rules, need: u16) -> u16
    ensures { result ≡ told_need rules need }
{
    match rules {
        Rules::Simple => need / 2,
        Rules::Extended => need,
    }
}

/// The line of a procedure.
#[tactic(auto, unfolding(crate::specs::Show::procedure_text))]
fn procedure_line(rules: Rules, number: u16, procedure: &ProcedureRef<'_>) -> Line
    ensures { result ≡ procedure_text rules number procedure.now }
{
    let mut line = Line::new();
    line.push_text(b"procedure ");
    push_small(&mut line, number);
    line.push_text(b" entry ");
    line.push_number(u64::from(procedure.entry()));
    push_base(&mut line, rules, procedure.base());
    line.push_text(b" need ");
    push_small(&mut line, told_need(rules, procedure.need()));
    line.push_text(b" ranges ");
    push_small(&mut line, procedure.ranges().len() as u16);
    line.push_text(b" returns ");
    line.push_text(yes_or_no(procedure.exit().is_some()));
    line.end();
    line
}

/// The line of what a procedure names, if that is anything.
#[tactic(auto, unfolding(crate::specs::Show::names_text))]
fn names_line(number: u16, procedure: &ProcedureRef<'_>) -> Line
    ensures { result ≡ names_text number procedure.now }
{
    let kept = procedure.kept().len();
    let mark = procedure.mark();
    let mut line = Line::new();
    if 0 < kept || 0 < mark {
        line.push_text(b"procedure ");
        push_small(&mut line, number);
        line.push_text(b" keeps ");
        push_small(&mut line, kept as u16);
        line.push_text(b" mark ");
        push_small(&mut line, u16::from(mark));
        line.end();
    }
    line
}

/// The line of a fact.
#[tactic(auto, unfolding(crate::specs::Show::fact_text))]
fn fact_line(fact: &Fact) -> Line
    ensures { result ≡ fact_text fact.now }
{
    let mut line = Line::new();
    line.push_text(b"fact ");
    line.push_word(fact.first);
    line.push_text(b"..");
    line.push_word(fact.last);
    line.push_text(b" step ");
    push_small(&mut line, u16::from(fact.step));
    line.push_text(b" values ");
    line.push_byte(fact.value.lo);
    line.push_text(b"..");
    line.push_byte(fact.value.hi);
    line.push_text(b" low bits ");
    push_small(&mut line, u16::from(fact.value.count));
    line.end();
    line
}

/// The line of a node.
#[tactic(auto, unfolding(crate::specs::Show::node_text))]
fn node_line(number: u32, node: &NodeRef<'_>) -> Line
    ensures { result ≡ node_text number node.now }
{
    let mut line = Line::new();
    line.push_text(b"node ");
    line.push_number(u64::from(number));
    line.push_text(b" procedure ");
    push_small(&mut line, node.procedure());
    line.push_text(b" address ");
    line.push_word(node.address());
    line.push_text(b" bank ");
    push_bank(&mut line, node.bank());
    line.end();
    line
}

/// Writes the lines of all facts.
#[tactic(auto, using(crate::proofs::Lines::any_line_written, crate::proofs::Lines::any_line_cut))]
fn put_facts<W: Sink>(facts: &[Fact], out: &mut W) -> Result<(), OutFault>
    requires { W.has_failed out.old ≡ false }
    ensures whole { OnOk result (Gains (W.contents out.old) (flat_map fact_text facts.now) (W.contents out.new)) }
    ensures beginning { OnErr result (GainsBeginning (W.contents out.old) (flat_map fact_text facts.now) (W.contents out.new)) }
    ensures failed { W.has_failed out.new ≡ is_err result }
{
    for fact in facts {
        put_all(out, fact_line(fact).as_slice())?;
    }
    Ok(())
}

/// Writes the lines of a procedure.
#[tactic(auto, using(gb_text::proofs::Gained::gains_both, gb_text::proofs::Gained::begins_first, gb_text::proofs::Gained::begins_second), unfolding(crate::specs::Show::procedure_lines))]
fn put_procedure<W: Sink>(
    rules: Rules,
    number: u16,
    procedure: &ProcedureRef<'_>,
    out: &mut W,
) -> Result<(), OutFault>
    requires { W.has_failed out.old ≡ false }
    ensures whole { OnOk result (Gains (W.contents out.old) (procedure_lines rules number procedure.now) (W.contents out.new)) }
    ensures beginning { OnErr result (GainsBeginning (W.contents out.old) (procedure_lines rules number procedure.now) (W.contents out.new)) }
    ensures failed { W.has_failed out.new ≡ is_err result }
{
    put_all(out, procedure_line(rules, number, procedure).as_slice())?;
    put_all(out, names_line(number, procedure).as_slice())
}

/// Writes the lines of all procedures.
#[tactic(auto, using(crate::proofs::ShowLaws::procedure_taken))]
fn put_procedures<W: Sink>(rules: Rules, cert: &Cert<'_>, out: &mut W) -> Result<(), OutFault>
    requires { W.has_failed out.old ≡ false }
    ensures whole { OnOk result (Gains (W.contents out.old) (numbered (procedure_lines rules) 0 cert.now.procedures) (W.contents out.new)) }
    ensures beginning { OnErr result (GainsBeginning (W.contents out.old) (numbered (procedure_lines rules) 0 cert.now.procedures) (W.contents out.new)) }
    ensures failed { W.has_failed out.new ≡ is_err result }
{
    for i in 0..cert.procedures() {
        put_procedure(rules, i, &cert.procedure(i), out)?;
    }
    Ok(())
}

/// Writes the lines of all nodes.
#[tactic(auto, using(crate::proofs::ShowLaws::node_taken))]
fn put_nodes<W: Sink>(cert: &Cert<'_>, out: &mut W) -> Result<(), OutFault>
    requires { W.has_failed out.old ≡ false }
    ensures whole { OnOk result (Gains (W.contents out.old) (numbered node_text 0 cert.now.nodes) (W.contents out.new)) }
    ensures beginning { OnErr result (GainsBeginning (W.contents out.old) (numbered node_text 0 cert.now.nodes) (W.contents out.new)) }
    ensures failed { W.has_failed out.new ≡ is_err result }
{
    for i in 0..cert.nodes() {
        put_all(out, node_line(i, &cert.node(i)).as_slice())?;
    }
    Ok(())
}

/// Writes the lines of a certificate, of any version: `stack BBBB..TTTT procedures P nodes N`; in version 4 for each fact
/// `fact AAAA..BBBB step S values LL..HH low bits K`; for each procedure `procedure I entry E need W ranges R returns yes` (or
/// `returns no`; from version 3 on `base BBBB` stands before the need, which is in bytes), in version 4 with `procedure I keeps K mark M`
/// behind it if it keeps bytes or has a mark; then for each node `node I procedure P address AAAA bank BBB`. Addresses, banks and
/// bytes are hexadecimal; numbers begin with 0.
///
/// # Errors
///
/// OutFault where the sink fails before it took them all; it then has a beginning of them.
#[tactic(auto, using(gb_text::proofs::Gained::gains_both, gb_text::proofs::Gained::begins_first, gb_text::proofs::Gained::begins_second), unfolding(crate::specs::Show::show_text))]
pub fn show_cert<W: Sink>(cert: &Cert<'_>, out: &mut W) -> Result<(), OutFault>
    requires { W.has_failed out.old ≡ false }
    ensures lines { OnOk result (Gains (W.contents out.old) (show_text cert.now) (W.contents out.new)) }
    ensures beginning { OnErr result (GainsBeginning (W.contents out.old) (show_text cert.now) (W.contents out.new)) }
    ensures failed { W.has_failed out.new ≡ is_err result }
{
    put_all(out, stack_line(cert).as_slice())?;
    put_facts(cert.facts(), out)?;
    put_procedures(Rules::of(cert.version()), cert, out)?;
    put_nodes(cert, out)
}
