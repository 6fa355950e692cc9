//! Writing whole texts to a sink.

ghost use Rattle.std.specs.Prelude.{◌≡◌, false, is_err, OnOk, OnErr, length};
ghost use Rattle.gb_text.specs.Sink.{Gains};
ghost use Rattle.gb_text.specs.Text.{GainsBeginning};

use crate::sink::{OutFault, Sink};

/// Writes all of the bytes.
///
/// # Errors
///
/// OutFault where the sink fails before it took them all; it then has a beginning of them.
#[tactic(auto, using(crate::proofs::Gained::gains_more, crate::proofs::Gained::gains_whole, crate::proofs::Gained::gains_part))]
pub fn put_all<W: Sink>(out: &mut W, bytes: &[u8]) -> Result<(), OutFault>
    requires { W.has_failed out.old ≡ false }
    ensures whole { OnOk result (Gains (W.contents out.old) bytes.now (W.contents out.new)) }
    ensures beginning { OnErr result (GainsBeginning (W.contents out.old) bytes.now (W.contents out.new)) }
    ensures failed { W.has_failed out.new ≡ is_err result }
{
    let mut done = 0;
    while done < bytes.len() {
        match out.put(&bytes[done..]) {
            Ok(taken) => done += taken,
            Err(_) => return Err(OutFault),
        }
    }
    Ok(())
}
