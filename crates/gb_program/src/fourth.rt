//! A certificate in version 4 of its format.

ghost use Rattle.std.specs.Prelude.{◌≡◌, ◌==◌, ◌≤◌, ◌<◌, ◌+◌, ◌∷◌, [], ◌++◌, false, is_err, length, IfOk, OnOk, OnErr};
ghost use Rattle.std.specs.List.{flat_map};
ghost use Rattle.gb_command_line.specs.Below.gb_verify.Below.gb_states.Rules.{IsCertificate};
ghost use Rattle.gb_command_line.specs.Below.gb_verify.Below.gb_states.WholeRules;
ghost use Rattle.gb_command_line.specs.Below.gb_verify.Below.gb_states.WholeSpelling as whole;
ghost use Rattle.gb_events.specs.Sinks.{Gains};
ghost use Rattle.gb_events.specs.Sinks.{GainsBeginning};
ghost use Rattle.gb_command_line.specs.Below.gb_verify.CertificateFile.{HasBeginning};
ghost use Rattle.gb_command_line.specs.Below.gb_verify.Upgrade.{fault_outcome, IsOutcome, IfWritten};
ghost use Rattle.gb_command_line.specs.Below.gb_verify.Widened.{widened};
ghost use Rattle.gb_program.specs.FourthFile.{written, GainsFourth, GainsSame};
ghost use Rattle.gb_program.specs.Fourth.{AreNumbers, fourth, fourth_forms, fourth_node, fourth_text, grouped, nodes_of, order, placed, placed_one};

use crate::fourth_order::{count, order};
use crate::fourth_spelled::{node_text, procedure_text, quad};
use crate::fourth_told::{Text, word};
use gb_command_line::{Cert, CertFault, Upgraded};
use gb_domain::types::Rules;
use gb_events::gb_trace::gb_calls::gb_cert::older_rules;
use gb_events::{OutFault, Sink, certificate_line, put_all};
use std::alloc::Global;

/// How many nodes there are: as many as before.
fn node_count(cert: &Cert<'_>, numbers: &[u16]) -> u32
    requires certificate { IsCertificate cert.now }
    requires few { length numbers.now ≤ 255 }
    ensures { result ≡ length (grouped 0 (widened cert.now).nodes numbers.now) }
{
    let mut nodes = 0;
    for i in 0..numbers.len() {
        nodes += count(cert, numbers[i], cert.nodes());
    }
    nodes
}

/// The head, with no facts.
fn head(cert: &Cert<'_>, numbers: &[u16]) -> [u8; 17]
    requires certificate { IsCertificate cert.now }
    requires older { (cert.now.version == 4) ≡ false }
    requires numbers { numbers.now ≡ order (widened cert.now) }
    requires all { AreNumbers (length cert.now.procedures) numbers.now }
    requires few { length numbers.now ≤ 255 }
    ensures { result ≡ whole.head (fourth (widened cert.now)) ++ (0 ∷ 0 ∷ []) }
{
    let region = cert.region();
    let first = word(region.first);
    let last = word(region.last);
    let procedures = word(cert.procedures());
    let nodes = quad(node_count(cert, numbers));
    [
        b'G',
        b'B',
        b'B',
        b'X',
        4,
        first[0],
        first[1],
        last[0],
        last[1],
        procedures[0],
        procedures[1],
        nodes[0],
        nodes[1],
        nodes[2],
        nodes[3],
        0,
        0,
    ]
}

/// A procedure, whose nodes come after so many others.
fn placed_text(cert: &Cert<'_>, number: u16, before: u32) -> Text
    requires certificate { IsCertificate cert.now }
    requires number { number < length cert.now.procedures }
    requires room { before ≤ 4000000000 }
    ensures { result.items ≡ flat_map (whole.procedure cert.now.region) (placed_one (widened cert.now) before number) }
{
    let procedure = cert.procedure(number);
    let entry = before + count(cert, number, procedure.entry());
    procedure_text(Rules::of(cert.version()), &procedure, number == 0, entry)
}

/// Writes these procedures.
fn put_procedures<W: Sink>(cert: &Cert<'_>, numbers: &[u16], out: &mut W) -> Result<(), OutFault>
    requires works { W.has_failed out.old ≡ false }
    requires certificate { IsCertificate cert.now }
    requires numbers { AreNumbers (length cert.now.procedures) numbers.now }
    requires few { length numbers.now ≤ 255 }
    ensures whole { OnOk result (Gains (W.contents out.old) (flat_map (whole.procedure cert.now.region) (placed (widened cert.now) 0 numbers.now)) (W.contents out.new)) }
    ensures beginning { OnErr result (GainsBeginning (W.contents out.old) (flat_map (whole.procedure cert.now.region) (placed (widened cert.now) 0 numbers.now)) (W.contents out.new)) }
    ensures failed { W.has_failed out.new ≡ is_err result }
{
    let mut before = 0;
    for i in 0..numbers.len() {
        put_all(out, placed_text(cert, numbers[i], before).as_slice())?;
        before += count(cert, numbers[i], cert.nodes());
    }
    Ok(())
}

/// Writes the nodes of a procedure, with a new number of it.
fn put_group<W: Sink>(cert: &Cert<'_>, old: u16, number: u16, out: &mut W) -> Result<(), OutFault>
    requires works { W.has_failed out.old ≡ false }
    requires certificate { IsCertificate cert.now }
    ensures whole { OnOk result (Gains (W.contents out.old) (flat_map (λ n. whole.node cert.now.region (fourth_forms cert.now) (fourth_node number n)) (nodes_of old (widened cert.now).nodes)) (W.contents out.new)) }
    ensures beginning { OnErr result (GainsBeginning (W.contents out.old) (flat_map (λ n. whole.node cert.now.region (fourth_forms cert.now) (fourth_node number n)) (nodes_of old (widened cert.now).nodes)) (W.contents out.new)) }
    ensures failed { W.has_failed out.new ≡ is_err result }
{
    let rules = Rules::of(cert.version());
    for i in 0..cert.nodes() {
        let node = cert.node(i);
        if node.procedure() == old {
            put_all(out, node_text(rules, &node, number).as_slice())?;
        }
    }
    Ok(())
}

/// Writes the nodes of these procedures, one procedure after another. It passes over all nodes for each of them: there are at most 255.
fn put_nodes<W: Sink>(cert: &Cert<'_>, numbers: &[u16], out: &mut W) -> Result<(), OutFault>
    requires works { W.has_failed out.old ≡ false }
    requires certificate { IsCertificate cert.now }
    requires few { length numbers.now ≤ 255 }
    ensures whole { OnOk result (Gains (W.contents out.old) (flat_map (whole.node cert.now.region (fourth_forms cert.now)) (grouped 0 (widened cert.now).nodes numbers.now)) (W.contents out.new)) }
    ensures beginning { OnErr result (GainsBeginning (W.contents out.old) (flat_map (whole.node cert.now.region (fourth_forms cert.now)) (grouped 0 (widened cert.now).nodes numbers.now)) (W.contents out.new)) }
    ensures failed { W.has_failed out.new ≡ is_err result }
{
    for i in 0..numbers.len() {
        put_group(cert, numbers[i], i as u16, out)?;
    }
    Ok(())
}

/// Writes a certificate of version 1, 2 or 3 in version 4, a procedure and a node at a time.
pub fn put_fourth<W: Sink>(cert: &Cert<'_>, out: &mut W) -> Result<(), OutFault>
    requires works { W.has_failed out.old ≡ false }
    requires certificate { IsCertificate cert.now }
    requires older { (cert.now.version == 4) ≡ false }
    ensures whole { OnOk result (Gains (W.contents out.old) (fourth_text cert.now) (W.contents out.new)) }
    ensures beginning { OnErr result (GainsBeginning (W.contents out.old) (fourth_text cert.now) (W.contents out.new)) }
    ensures failed { W.has_failed out.new ≡ is_err result }
{
    let numbers = order(cert);
    put_all(out, &head(cert, numbers.as_slice()))?;
    put_procedures(cert, numbers.as_slice(), out)?;
    put_nodes(cert, numbers.as_slice(), out)
}

/// Writes a certificate in version 4.
#[tactic(auto, using(crate::proofs::FourthFileLaws::same_text))]
fn put_certificate<W: Sink>(cert: &Cert<'_>, out: &mut W) -> Result<(), OutFault>
    requires works { W.has_failed out.old ≡ false }
    requires certificate { WholeRules.IsCertificate cert.now }
    ensures whole { OnOk result (Gains (W.contents out.old) (fourth_text cert.now) (W.contents out.new)) }
    ensures beginning { OnErr result (GainsBeginning (W.contents out.old) (fourth_text cert.now) (W.contents out.new)) }
    ensures failed { W.has_failed out.new ≡ is_err result }
{
    if cert.version() == 4 {
        put_all(out, cert.bytes())
    } else {
        older_rules();
        put_fourth(cert, out)
    }
}

/// What was written where a fault is met.
fn fault_outcome(fault: CertFault) -> Upgraded
    ensures { result ≡ fault_outcome fault }
{
    match fault {
        CertFault::Memory => Upgraded::NoMemory,
        _ => Upgraded::Unreadable,
    }
}

/// Writes the certificate that the bytes spell in version 4: by way of version 3, with its procedures in order of the addresses
/// at which they begin, and bank bounds whose ends differ in the ninth bit widened to all banks. One of version 4 comes out as it
/// is. Where the bytes are no certificate it writes the line `CERTIFICATE Cn` of their first fault, C9 where memory ran out. It
/// takes the memory that `Cert::parse` takes, and copies nothing.
///
/// # Errors
///
/// OutFault where the sink failed during the call; it then has a beginning of what was to be written.
#[tactic(auto, using(crate::proofs::FourthFileLaws::fourth_written, crate::proofs::FourthFileLaws::fourth_begins, crate::proofs::FourthFileLaws::fault_written))]
pub fn upgrade_whole<W: Sink>(alloc: Global, cert: &[u8], out: &mut W) -> Result<Upgraded, OutFault>
    requires { W.has_failed out.old ≡ false }
    // What was written is the certificate in version 4, or the line of the first fault, or where memory ran out its own.
    ensures written { IfOk result (λ outcome. Gains (W.contents out.old) (written outcome cert.now) (W.contents out.new)) }
    // The outcome names its kind.
    ensures outcome { IfOk result (λ outcome. IsOutcome outcome cert.now) }
    // Where a certificate was written, it is the one that the bytes spell, in version 4.
    ensures upgraded { IfOk result (λ outcome. IfWritten outcome (GainsFourth (W.contents out.old) cert.now (W.contents out.new))) }
    // One of version 4 comes out as it is.
    ensures same { IfOk result (λ outcome. IfWritten outcome (GainsSame (W.contents out.old) cert.now (W.contents out.new))) }
    // On OutFault what went out is a beginning of it.
    ensures beginning { OnErr result (HasBeginning fourth_text (W.contents out.old) cert.now (W.contents out.new)) }
    // OutFault exactly where the sink failed.
    ensures failed { W.has_failed out.new ≡ is_err result }
{
    match Cert::parse(alloc, cert) {
        Ok(cert) => {
            put_certificate(&cert, out)?;
            Ok(Upgraded::Written)
        }
        Err(fault) => {
            put_all(out, certificate_line(fault).as_slice())?;
            Ok(fault_outcome(fault))
        }
    }
}
