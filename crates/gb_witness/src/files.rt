//! From the bytes of files to the line of a watched script.

ghost use Rattle.std.specs.Prelude.{◌≡◌, false, is_err, IfOk, OnErr};
ghost use Rattle.gb_witness.specs.Files.{IsWatchWritten, IsWatchBegun};

use crate::witness::{WatchedRun, watch_script_shown};
use gb_ops::machine::Region;
use gb_printed::{Console, Progress};
use gb_text::cartridge::cartridge_line;
use gb_text::put::put_all;
use gb_text::sink::{OutFault, Sink};
use gb_text::{HeaderFault, Rom};
use std::alloc::Global;

/// What became of a script that was to be watched.
#[derive(Clone, Copy)]
pub enum WatchOutcome {
    /// It was, and ended so.
    Told(WatchedRun),
    /// The file is no cartridge.
    NoCartridge(HeaderFault),
    /// There is no room for a console.
    NoMemory,
}

/// Watches a file's cartridge from power-up, as `watch_script_shown` does, and writes the run's line, or `CARTRIDGE Hn` where it is
/// no cartridge.
///
/// # Errors
///
/// OutFault where the sink fails before it took the line; it then has a beginning of it.
#[tactic(auto, using(crate::proofs::FileLaws::watched_file, crate::proofs::FileLaws::begun_file))]
pub fn watch_bytes<W: Sink, P: Progress>(
    alloc: Global,
    file: &[u8],
    script: &[u8],
    frames: u32,
    region: Region,
    out: &mut W,
    progress: &mut P,
) -> Result<WatchOutcome, OutFault>
    requires { W.has_failed out.old ≡ false }
    ensures written { IfOk result (λ outcome. IsWatchWritten outcome file.now script.now frames region (W.contents out.old) (W.contents out.new)) }
    ensures beginning { OnErr result (IsWatchBegun file.now script.now frames region (W.contents out.old) (W.contents out.new)) }
    ensures failed { W.has_failed out.new ≡ is_err result }
{
    let rom = match Rom::parse(file) {
        Ok(rom) => rom,
        Err(fault) => {
            put_all(out, cartridge_line(fault).as_slice())?;
            return Ok(WatchOutcome::NoCartridge(fault));
        }
    };
    let Ok(mut console) = Console::new(alloc, &rom) else {
        return Ok(WatchOutcome::NoMemory);
    };
    let run = watch_script_shown(&mut console, script, frames, region, out, progress)?;
    Ok(WatchOutcome::Told(run))
}
