//! From the bytes of two files to the printed line.

ghost use Rattle.std.specs.Prelude.{◌≡◌, ◌+◌, ◌≤◌, false, is_err, IfOk, OnErr, length};
ghost use Rattle.gb_text.specs.Sink.{Gains};
ghost use Rattle.gb_verify.specs.Text.{certificate_text, IsAnswer, IfAcceptedAnswer, IsVerified, IfVerified, IsOutcome, HasBeginning, written};

use crate::check::check;
use crate::verdict::Verdict;
use gb_rules::{Cert, CertFault};
use gb_text::cartridge::cartridge_line;
use gb_text::line::Line;
use gb_text::put::put_all;
use gb_text::sink::{OutFault, Sink};
use gb_text::{HeaderFault, Rom};
use std::alloc::Global;

/// What there is to say of a cartridge and a certificate.
#[derive(Clone, Copy, PartialEq, Eq)]
pub enum Answer {
    Cartridge(HeaderFault),
    Certificate(CertFault),
    Judged(Verdict),
}

/// What kind of line was written.
#[derive(Clone, Copy, Debug, PartialEq, Eq)]
pub enum Outcome {
    Accepted,
    Refused,
    /// The cartridge or the certificate can't be read.
    Unreadable,
    NoMemory,
}

/// `CERTIFICATE Cn`, with the number of the fault (own text).
pub fn certificate_line(fault: CertFault) -> Line
    ensures { result ≡ certificate_text fault }
{
    let mut line = Line::new();
    line.push_text(b"CERTIFICATE C");
    line.push_number(u64::from(fault.number()));
    line.end();
    line
}

impl Answer {
    ghost use Rattle.gb_verify.specs.Text.{outcome_of, answer_text};

    fn outcome(self) -> Outcome
        ensures { result ≡ outcome_of self }
    {
        match self {
            Answer::Judged(Verdict::Accepted { .. }) => Outcome::Accepted,
            Answer::Judged(Verdict::Refused { .. }) => Outcome::Refused,
            Answer::Certificate(CertFault::Memory) => Outcome::NoMemory,
            Answer::Cartridge(_) | Answer::Certificate(_) => Outcome::Unreadable,
        }
    }

    fn line(self) -> Line
        ensures { result ≡ answer_text self }
    {
        let mut line = Line::new();
        match self {
            Answer::Cartridge(fault) => return cartridge_line(fault),
            Answer::Certificate(fault) => return certificate_line(fault),
            Answer::Judged(Verdict::Accepted { nodes, procedures }) => {
                line.push_text(b"ACCEPTED nodes ");
                line.push_number(u64::from(nodes));
                line.push_text(b" procedures ");
                line.push_number(u64::from(procedures));
            }
            Answer::Judged(Verdict::Refused { node, reason }) => {
                line.push_text(b"REFUSED node ");
                line.push_number(u64::from(node));
                line.push_text(b" reason ");
                line.push_number(u64::from(reason.number()));
            }
        }
        line.end();
        line
    }
}

/// What there is to say of the bytes of a cartridge and of a certificate.
fn examine(alloc: Global, rom: &[u8], cert: &[u8]) -> Answer
    ensures answer { IsAnswer rom.now cert.now result }
    ensures verified { IfAcceptedAnswer result (IsVerified rom.now cert.now) }
{
    let rom = match Rom::parse(rom) {
        Ok(rom) => rom,
        Err(fault) => return Answer::Cartridge(fault),
    };
    match Cert::parse(alloc, cert) {
        Ok(cert) => Answer::Judged(check(&rom, &cert)),
        Err(fault) => Answer::Certificate(fault),
    }
}

/// Writes the line of a cartridge's and a certificate's bytes: `ACCEPTED nodes N procedures P`,
/// `REFUSED node I reason R`, `CARTRIDGE Hn` or `CERTIFICATE Cn`. The cartridge is read first.
///
/// # Errors
///
/// OutFault where the sink failed during the call.
#[tactic(auto, using(crate::proofs::AnswerLaws::verify_bytes_line, crate::proofs::AnswerLaws::verify_bytes_outcome, crate::proofs::AnswerLaws::verify_bytes_beginning, crate::proofs::AnswerLaws::verify_bytes_accepted))]
pub fn verify_bytes<W: Sink>(
    alloc: Global,
    rom: &[u8],
    cert: &[u8],
    out: &mut W,
) -> Result<Outcome, OutFault>
    requires { W.has_failed out.old ≡ false }
    // On a sink that tells its bytes, what was written is the line of the two files, once, or where memory ran out its own.
    ensures line { IfOk result (λ outcome. Gains (W.contents out.old) (written outcome rom.now cert.now) (W.contents out.new)) }
    // The outcome names the line's kind; memory runs out only behind a cartridge that can be read.
    ensures outcome { IfOk result (λ outcome. IsOutcome outcome rom.now cert.now) }
    // Where it is accepted, both files can be read, the certificate is right, and every run is safe.
    ensures accepted { IfOk result (λ outcome. IfVerified outcome (IsVerified rom.now cert.now)) }
    // On OutFault what went out is a beginning of the line.
    ensures beginning { OnErr result (HasBeginning (W.contents out.old) rom.now cert.now (W.contents out.new)) }
    // OutFault exactly where the sink failed.
    ensures failed { W.has_failed out.new ≡ is_err result }
{
    let answer = examine(alloc, rom, cert);
    let line = answer.line();
    put_all(out, line.as_slice())?;
    Ok(answer.outcome())
}
