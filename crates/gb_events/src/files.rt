//! From a cartridge's file to the line of a list of events.

ghost use Rattle.std.specs.Prelude.{◌≡◌, ◌≤◌, ℕ, false, is_err, slice_index, IfOk, OnErr};
ghost use Rattle.gb_events.specs.Files.{IsReplayedFile, IsReplayWritten, IsReplayBegun};

use crate::line::replay_line;
use crate::list::EventList;
use crate::play::{Replayed, machine_of, play_events};
use gb_hunt::{HeaderFault, Rom, put_all};
use gb_ops::machine::Region;
use gb_text::cartridge::cartridge_line;
use gb_text::sink::{OutFault, Sink};
use std::alloc::{AllocError, Global};

/// What became of a list that was to be played.
#[derive(Clone, Copy)]
pub enum ReplayOutcome {
    /// It was, and ended so.
    Told(Replayed),
    /// The file is no cartridge.
    NoCartridge(HeaderFault),
    /// There is no room for a machine.
    NoMemory,
}

fn are_bytes(bytes: &[u8])
    ensures { (i : ℕ) → slice_index bytes.now i ≤ 255 }
{}

/// Plays a list of events on a cartridge from power-up.
fn replay_rom(
    alloc: Global,
    rom: &Rom<'_>,
    list: &EventList,
    region: Region,
) -> Result<Replayed, AllocError>
    ensures { IfOk result (IsReplayedFile rom.now list.now region) }
{
    // For the promise where a certificate is right.
    are_bytes(rom.bytes());
    let mut machine = machine_of(alloc, rom)?;
    Ok(play_events(&mut machine, list, region))
}

/// Plays a list of events on a file's cartridge, from power-up with zeros in RAM and up to the first event with a fault for a stack
/// region, and writes the line of that, or `CARTRIDGE Hn` where it is no cartridge. Where some certificate with this region is right for
/// the cartridge, the run is whole.
///
/// # Errors
///
/// OutFault where the sink fails before it took the line; it then has a beginning of it.
pub fn replay_bytes<W: Sink>(
    alloc: Global,
    file: &[u8],
    list: &EventList,
    region: Region,
    out: &mut W,
) -> Result<ReplayOutcome, OutFault>
    requires { W.has_failed out.old ≡ false }
    ensures written { IfOk result (λ outcome. IsReplayWritten outcome file.now list.now region (W.contents out.old) (W.contents out.new)) }
    ensures beginning { OnErr result (IsReplayBegun file.now list.now region (W.contents out.old) (W.contents out.new)) }
    ensures failed { W.has_failed out.new ≡ is_err result }
{
    let rom = match Rom::parse(file) {
        Ok(rom) => rom,
        Err(fault) => {
            put_all(out, cartridge_line(fault).as_slice())?;
            return Ok(ReplayOutcome::NoCartridge(fault));
        }
    };
    let Ok(replayed) = replay_rom(alloc, &rom, list, region) else {
        return Ok(ReplayOutcome::NoMemory);
    };
    put_all(out, replay_line(replayed).as_slice())?;
    Ok(ReplayOutcome::Told(replayed))
}
