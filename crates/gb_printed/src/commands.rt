//! From the bytes of files to what the commands write.

ghost use Rattle.std.specs.Prelude.{◌≡◌, false, is_err, IfOk, OnOk, OnErr};
ghost use Rattle.gb_text.specs.Sink.{Gains};
ghost use Rattle.gb_text.specs.Below.gb_header.Header.{fault_of};
ghost use Rattle.gb_text.specs.Text.{GainsBeginning};
ghost use Rattle.gb_watch.specs.Below.gb_verify.CertificateFile.{HasBeginning};
ghost use Rattle.gb_printed.specs.Show.{show_text};
ghost use Rattle.gb_printed.specs.Commands.{file_text, written_lines, IsCertificateFault, IsRunWritten, IsRunBegun};

use crate::header::text_of;
use crate::script::{Progress, run_script_shown};
use crate::show::show_cert;
use gb_text::cartridge::cartridge_line;
use gb_text::line::Line;
use gb_text::put::put_all;
use gb_text::sink::{OutFault, Sink};
use gb_text::{HeaderFault, Rom};
use gb_watch::{Cert, CertFault, Console, Ending, certificate_line};
use std::alloc::Global;

/// What became of a run.
#[derive(Clone, Copy, PartialEq, Eq)]
pub enum RunOutcome {
    /// It ended so.
    Ended(Ending),
    /// The file is no cartridge.
    NoCartridge(HeaderFault),
    /// There is no room for a console.
    NoMemory,
}

/// What a file says of itself, and its fault where it is no cartridge.
#[tactic(auto, using(crate::proofs::Files::header_file, crate::proofs::Files::fault_file, crate::proofs::Files::no_fault))]
fn file_line(file: &[u8]) -> (Line, Option<HeaderFault>)
    ensures line { result.0 ≡ file_text file.now }
    ensures fault { result.1 ≡ fault_of file.now }
{
    match Rom::parse(file) {
        Ok(rom) => (text_of(&rom), None),
        Err(fault) => (cartridge_line(fault), Some(fault)),
    }
}

/// Writes what a file says of itself: its header's line, or `CARTRIDGE Hn` where it is no cartridge. Answers its fault.
///
/// # Errors
///
/// OutFault where the sink fails before it took the line; it then has a beginning of it.
pub fn header_bytes<W: Sink>(file: &[u8], out: &mut W) -> Result<Option<HeaderFault>, OutFault>
    requires { W.has_failed out.old ≡ false }
    ensures line { OnOk result (Gains (W.contents out.old) (file_text file.now) (W.contents out.new)) }
    ensures fault { IfOk result (λ fault. fault ≡ fault_of file.now) }
    ensures beginning { OnErr result (GainsBeginning (W.contents out.old) (file_text file.now) (W.contents out.new)) }
    ensures failed { W.has_failed out.new ≡ is_err result }
{
    let (line, fault) = file_line(file);
    put_all(out, line.as_slice())?;
    Ok(fault)
}

/// Writes the lines of the certificate that the bytes spell, or `CERTIFICATE Cn` where they are none, C9 where memory ran
/// out. Answers their fault.
///
/// # Errors
///
/// OutFault where the sink fails before it took them all; it then has a beginning of them.
#[tactic(auto, using(crate::proofs::ShowLaws::show_written, crate::proofs::ShowLaws::show_begins, crate::proofs::ShowLaws::fault_written))]
pub fn show_bytes<W: Sink>(
    alloc: Global,
    file: &[u8],
    out: &mut W,
) -> Result<Option<CertFault>, OutFault>
    requires { W.has_failed out.old ≡ false }
    // What was written is the certificate's lines, or the line of the first fault, or where memory ran out its own.
    ensures written { IfOk result (λ fault. Gains (W.contents out.old) (written_lines fault file.now) (W.contents out.new)) }
    // It is the first fault, or none, or memory ran out.
    ensures fault { IfOk result (λ fault. IsCertificateFault fault file.now) }
    // On OutFault what went out is a beginning of it.
    ensures beginning { OnErr result (HasBeginning show_text (W.contents out.old) file.now (W.contents out.new)) }
    // OutFault exactly where the sink failed.
    ensures failed { W.has_failed out.new ≡ is_err result }
{
    match Cert::parse(alloc, file) {
        Ok(cert) => {
            show_cert(&cert, out)?;
            Ok(None)
        }
        Err(fault) => {
            put_all(out, certificate_line(fault).as_slice())?;
            Ok(Some(fault))
        }
    }
}

/// Runs a file's cartridge from power-up, as `run_script_shown` does, and writes the run's text, or `CARTRIDGE Hn` where
/// it is no cartridge.
///
/// # Errors
///
/// OutFault where the sink fails before it took them all; it then has a beginning of them.
#[tactic(auto, using(crate::proofs::Files::run_file, crate::proofs::Files::begun_file))]
pub fn run_bytes<W: Sink, P: Progress>(
    alloc: Global,
    file: &[u8],
    script: &[u8],
    frames: u32,
    out: &mut W,
    progress: &mut P,
) -> Result<RunOutcome, OutFault>
    requires { W.has_failed out.old ≡ false }
    ensures written { IfOk result (λ outcome. IsRunWritten outcome file.now script.now frames (W.contents out.old) (W.contents out.new)) }
    ensures beginning { OnErr result (IsRunBegun file.now script.now frames (W.contents out.old) (W.contents out.new)) }
    ensures failed { W.has_failed out.new ≡ is_err result }
{
    let rom = match Rom::parse(file) {
        Ok(rom) => rom,
        Err(fault) => {
            put_all(out, cartridge_line(fault).as_slice())?;
            return Ok(RunOutcome::NoCartridge(fault));
        }
    };
    let Ok(mut console) = Console::new(alloc, &rom) else {
        return Ok(RunOutcome::NoMemory);
    };
    let ending = run_script_shown(&mut console, script, frames, out, progress)?;
    Ok(RunOutcome::Ended(ending))
}
