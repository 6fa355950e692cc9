//! A certificate in the version that the words name.

ghost use Rattle.std.specs.Prelude.{◌≡◌, false, is_err, IfOk, OnErr};
ghost use Rattle.gb_command_line.specs.Below.gb_verify.CertificateFile.{HasBeginning};
ghost use Rattle.gb_command_line.specs.Below.gb_verify.Upgrade.{IsOutcome};
ghost use Rattle.gb_events.specs.Sinks.{Gains};
ghost use Rattle.gb_program.specs.Versions.{text_in, written};

use crate::fourth::upgrade_whole;
use gb_command_line::{UpgradeTo, Upgraded, upgrade_bytes};
use gb_events::{OutFault, Sink};
use gb_words::TargetVersion;
use std::alloc::Global;

/// Writes a certificate in the version that the words name, or in its own where that is a later one.
///
/// # Errors
///
/// OutFault where the sink failed during the call; it then has a beginning of what was to be written.
pub fn upgrade_in<W: Sink>(
    alloc: Global,
    cert: &[u8],
    to: TargetVersion,
    out: &mut W,
) -> Result<Upgraded, OutFault>
    requires { W.has_failed out.old ≡ false }
    ensures written { IfOk result (λ outcome. Gains (W.contents out.old) (written to outcome cert.now) (W.contents out.new)) }
    ensures outcome { IfOk result (λ outcome. IsOutcome outcome cert.now) }
    ensures beginning { OnErr result (HasBeginning (text_in to) (W.contents out.old) cert.now (W.contents out.new)) }
    ensures failed { W.has_failed out.new ≡ is_err result }
{
    match to {
        TargetVersion::Two => upgrade_bytes(alloc, cert, UpgradeTo::Two, out),
        TargetVersion::Three => upgrade_bytes(alloc, cert, UpgradeTo::Three, out),
        TargetVersion::Four => upgrade_whole(alloc, cert, out),
    }
}
