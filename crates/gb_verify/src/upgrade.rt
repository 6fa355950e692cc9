//! A certificate in a later version of its format.

ghost use Rattle.std.specs.Prelude.{◌≡◌, ◌==◌, false, is_err, IfOk, OnOk, OnErr};
ghost use Rattle.std.specs.List.{flat_map};
ghost use Rattle.gb_rules.specs.Below.gb_domain.Limits.{rules_of};
ghost use Rattle.gb_rules.specs.Below.gb_cert.Places.{upgraded_version};
ghost use Rattle.gb_rules.specs.Below.gb_states.WholeRules.{IsCertificate};
ghost use Rattle.gb_rules.specs.Below.gb_domain.declared.rules.Rules.TheVariants.{Simple};
ghost use Rattle.gb_rules.specs.Below.gb_states.Spelling as spelled;
ghost use Rattle.gb_text.specs.Sink.{Gains};
ghost use Rattle.gb_text.specs.Text.{GainsBeginning};
ghost use Rattle.gb_verify.specs.CertificateFile.{HasBeginning};
ghost use Rattle.gb_verify.specs.Upgrade.{text_in, upgraded_text, written, fault_outcome, IsOutcome, IfWritten, GainsUpgrade, GainsSame};

use crate::verify::certificate_line;
use crate::widen::put_widened;
use gb_rules::{Cert, CertFault, ProcedureRef, Rules};
use gb_text::put::put_all;
use gb_text::sink::{OutFault, Sink};
use std::alloc::Global;

/// The version that a certificate is upgraded to.
#[derive(Clone, Copy, Debug, PartialEq, Eq)]
pub enum UpgradeTo {
    Two,
    Three,
}

/// What was written of a certificate's bytes.
#[derive(Clone, Copy, PartialEq, Eq)]
pub enum Upgraded {
    /// The certificate, in the version that was asked for, or in its own if that is a later one.
    Written,
    /// The line of their first fault: they are no certificate.
    Unreadable,
    /// `CERTIFICATE C9`.
    NoMemory,
}

/// A node's number as versions 2 and 3 spell it, the lowest byte first.
#[tactic(auto, unfolding(crate::specs::OpenedSpelling::node_number))]
fn node_number(number: u32) -> [u8; 4]
    ensures { result ≡ spelled.node_number 2 number }
{
    let low = number % 65536;
    let high = number / 65536;
    [
        (low % 256) as u8,
        (low / 256) as u8,
        (high % 256) as u8,
        (high / 256) as u8,
    ]
}

/// Writes a procedure as it is spelled where the certificate is upgraded; all but its entry is spelled alike in both.
fn put_procedure<W: Sink>(
    cert: &Cert<'_>,
    procedure: &ProcedureRef<'_>,
    body: &[u8],
    out: &mut W,
) -> Result<(), OutFault>
    requires works { W.has_failed out.old ≡ false }
    requires body { body.now ≡ spelled.body (rules_of cert.now.version) procedure.now }
    ensures whole { OnOk result (Gains (W.contents out.old) (spelled.procedure (upgraded_version cert.now.version) procedure.now) (W.contents out.new)) }
    ensures beginning { OnErr result (GainsBeginning (W.contents out.old) (spelled.procedure (upgraded_version cert.now.version) procedure.now) (W.contents out.new)) }
    ensures failed { W.has_failed out.new ≡ is_err result }
{
    put_all(out, &node_number(procedure.entry()))?;
    put_all(out, body)
}

/// Writes all procedures as they are spelled where the certificate is upgraded.
#[tactic(auto, using(crate::proofs::UpgradeLaws::procedure_taken))]
fn put_procedures<W: Sink>(cert: &Cert<'_>, out: &mut W) -> Result<(), OutFault>
    requires works { W.has_failed out.old ≡ false }
    requires older { (cert.now.version == 4) ≡ false }
    ensures whole { OnOk result (Gains (W.contents out.old) (flat_map (spelled.procedure (upgraded_version cert.now.version)) cert.now.procedures) (W.contents out.new)) }
    ensures beginning { OnErr result (GainsBeginning (W.contents out.old) (flat_map (spelled.procedure (upgraded_version cert.now.version)) cert.now.procedures) (W.contents out.new)) }
    ensures failed { W.has_failed out.new ≡ is_err result }
{
    for i in 0..cert.procedures() {
        put_procedure(cert, &cert.procedure(i), cert.procedure_body(i), out)?;
    }
    Ok(())
}

/// Writes a certificate of version 1, 2 or 3, in version 2 if it is of version 1.
#[tactic(auto, using(crate::proofs::UpgradeLaws::certificate_whole, crate::proofs::UpgradeLaws::certificate_begun, crate::proofs::UpgradeLaws::certificate_headed, crate::proofs::UpgradeLaws::certificate_numbered))]
fn put_upgraded<W: Sink>(cert: &Cert<'_>, out: &mut W) -> Result<(), OutFault>
    requires works { W.has_failed out.old ≡ false }
    requires older { (cert.now.version == 4) ≡ false }
    ensures whole { OnOk result (Gains (W.contents out.old) (upgraded_text cert.now) (W.contents out.new)) }
    ensures beginning { OnErr result (GainsBeginning (W.contents out.old) (upgraded_text cert.now) (W.contents out.new)) }
    ensures failed { W.has_failed out.new ≡ is_err result }
{
    put_all(out, &cert.upgraded_head())?;
    put_procedures(cert, out)?;
    put_all(out, cert.node_bytes())
}

/// Writes a certificate in the version that is asked for, or in its own where that is a later one.
#[tactic(auto, using(crate::proofs::UpgradeLaws::not_fourth, crate::proofs::UpgradeLaws::older_of, crate::proofs::UpgradeLaws::same_written, crate::proofs::UpgradeLaws::same_begun, crate::proofs::UpgradeLaws::widened_written, crate::proofs::UpgradeLaws::widened_begun))]
fn put_certificate<W: Sink>(cert: &Cert<'_>, to: UpgradeTo, out: &mut W) -> Result<(), OutFault>
    requires works { W.has_failed out.old ≡ false }
    requires certificate { IsCertificate cert.now }
    ensures whole { OnOk result (Gains (W.contents out.old) (text_in to cert.now) (W.contents out.new)) }
    ensures beginning { OnErr result (GainsBeginning (W.contents out.old) (text_in to cert.now) (W.contents out.new)) }
    ensures failed { W.has_failed out.new ≡ is_err result }
{
    match (Rules::of(cert.version()), to) {
        (Rules::Extended, _) => put_all(out, cert.bytes()),
        (Rules::Simple, UpgradeTo::Two) => put_upgraded(cert, out),
        (Rules::Simple, UpgradeTo::Three) => put_widened(cert, out),
    }
}

/// What was written where a fault is met.
fn fault_outcome(fault: CertFault) -> Upgraded
    ensures { result ≡ fault_outcome fault }
{
    match fault {
        CertFault::Memory => Upgraded::NoMemory,
        _ => Upgraded::Unreadable,
    }
}

/// Writes the certificate that the bytes spell in the version that is asked for. Version 2 has the same procedures, nodes and
/// stack region as version 1, with the numbers of nodes in four bytes. In version 3 each state of a procedure other than main
/// has its return word below its items, and such a procedure needs two bytes more. A certificate of that version or of a
/// later one comes out as it is. Where the bytes are no certificate it writes the line `CERTIFICATE Cn` of their first fault,
/// C9 where memory ran out. It takes the memory that `Cert::parse` takes, and copies nothing.
///
/// # Errors
///
/// OutFault where the sink failed during the call; it then has a beginning of what was to be written.
#[tactic(auto, using(crate::proofs::UpgradeLaws::upgrade_written, crate::proofs::UpgradeLaws::upgrade_gained, crate::proofs::UpgradeLaws::upgrade_begins, crate::proofs::UpgradeLaws::fault_written))]
pub fn upgrade_bytes<W: Sink>(
    alloc: Global,
    cert: &[u8],
    to: UpgradeTo,
    out: &mut W,
) -> Result<Upgraded, OutFault>
    requires { W.has_failed out.old ≡ false }
    // What was written is the upgraded certificate, or the line of the first fault, or where memory ran out its own.
    ensures written { IfOk result (λ outcome. Gains (W.contents out.old) (written to outcome cert.now) (W.contents out.new)) }
    // The outcome names its kind.
    ensures outcome { IfOk result (λ outcome. IsOutcome outcome cert.now) }
    // Where a certificate was written, it is the one that the bytes spell, upgraded.
    ensures upgraded { IfOk result (λ outcome. IfWritten outcome (GainsUpgrade to (W.contents out.old) cert.now (W.contents out.new))) }
    // One that isn't of an earlier version comes out as it is.
    ensures same { IfOk result (λ outcome. IfWritten outcome (GainsSame to (W.contents out.old) cert.now (W.contents out.new))) }
    // On OutFault what went out is a beginning of it.
    ensures beginning { OnErr result (HasBeginning (text_in to) (W.contents out.old) cert.now (W.contents out.new)) }
    // OutFault exactly where the sink failed.
    ensures failed { W.has_failed out.new ≡ is_err result }
{
    match Cert::parse(alloc, cert) {
        Ok(cert) => {
            put_certificate(&cert, to, out)?;
            Ok(Upgraded::Written)
        }
        Err(fault) => {
            put_all(out, certificate_line(fault).as_slice())?;
            Ok(fault_outcome(fault))
        }
    }
}
