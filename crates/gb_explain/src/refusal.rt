//! From the bytes of two files to what there is to say of a refusal.

ghost use Rattle.std.specs.Prelude.{◌≡◌, IfSome};
ghost use Rattle.gb_verify.specs.Text.{answer_of};
ghost use Rattle.gb_verify.specs.Verdict.{verdict_of};
ghost use Rattle.gb_verify.specs.declared.verify.Answer.TheVariants.{Judged};
ghost use Rattle.gb_verify.specs.declared.verdict.Verdict.TheVariants.{Refused};

use crate::explanation::Explanation;
use gb_verify::check::check;
use gb_verify::verdict::Verdict;
use gb_verify::{Cert, Rom};
use std::alloc::Global;

fn explain_verdict(rom: &Rom<'_>, cert: &Cert<'_>) -> Option<Explanation>
    ensures { IfSome result (λ e. verdict_of rom.now cert.now ≡ Refused e.node e.reason) }
{
    match check(rom, cert) {
        Verdict::Refused { node, reason } if node < cert.nodes() => {
            Some(Explanation::of(rom, cert, node, reason))
        }
        _ => None,
    }
}

/// What there is to say of the bytes of a cartridge and of a certificate: something only where the certificate is
/// refused, and nothing where memory ran out. It checks the certificate again.
pub fn explain(alloc: Global, rom: &[u8], cert: &[u8]) -> Option<Explanation>
    // The node and the reason are the verdict's.
    ensures refused { IfSome result (λ e. answer_of rom.now cert.now ≡ Judged (Refused e.node e.reason)) }
{
    let Ok(rom) = Rom::parse(rom) else {
        return None;
    };
    match Cert::parse(alloc, cert) {
        Ok(cert) => explain_verdict(&rom, &cert),
        Err(_) => None,
    }
}
