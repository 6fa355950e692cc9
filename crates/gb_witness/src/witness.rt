//! Watching a cartridge by a script.

ghost use Rattle.std.specs.Prelude.{◌≡◌, false, is_err, IfOk, OnErr};
ghost use Rattle.gb_printed.specs.Below.gb_console.Console.{rom_of};
ghost use Rattle.gb_printed.specs.Below.gb_console.declared.frame.Ending.TheVariants as ending;
ghost use Rattle.gb_printed.specs.Below.gb_watch.Verified.{IsVerifiedFor};
ghost use Rattle.gb_printed.specs.Below.gb_watch.declared.sighting.Watched.TheVariants as watched;
ghost use Rattle.gb_witness.specs.Witness.{watched_text, is_whole, IsWatchedScript, IsWrittenWatch, IsBegunWatch};

use crate::line::{CountedIn, fault_line};
use gb_ops::machine::Region;
use gb_printed::{
    Console, Ending, Progress, Silence, Watched, ending_line, keys_at, seconds_of, watch_frame,
};
use gb_text::line::Line;
use gb_text::put::put_all;
use gb_text::sink::{OutFault, Sink};

/// How a watched run ended, with the number of its frames, or of the frame that wasn't whole or had a fault.
#[derive(Clone, Copy)]
pub struct WatchedRun {
    pub watched: Watched,
    pub number: u32,
}

/// The line that says how a watched run ended.
pub fn watch_line(run: WatchedRun, pc: u16) -> Line
    ensures { result ≡ watched_text run.watched run.number pc }
{
    let number = u64::from(run.number);
    match run.watched {
        Watched::Ended(ending) => ending_line(ending, run.number, pc),
        Watched::Faulted(seen) => fault_line(seen.faults, CountedIn::Frame, number, seen.place),
    }
}

/// Whether a frame was whole and without a fault.
fn is_whole(watched: Watched) -> bool
    ensures { result ≡ is_whole watched }
{
    matches!(watched, Watched::Ended(Ending::Whole))
}

/// Plays frames by a script, up to the first that isn't whole or has a fault.
#[tactic(auto, using(crate::proofs::Watching::watches_none, crate::proofs::Watching::watches_more, crate::proofs::Watching::cut_is_run, crate::proofs::Watching::same_verified))]
fn watch_frames<P: Progress>(
    console: &mut Console<'_>,
    script: &[u8],
    frames: u32,
    region: Region,
    progress: &mut P,
) -> WatchedRun
    ensures run { IsWatchedScript region script.now frames console.old result console.new }
    ensures verified { IsVerifiedFor (rom_of console.old) region → result.watched ≡ watched.Ended ending.Whole }
{
    for number in 0..frames {
        progress.frame(number, frames);
        let watched = watch_frame(console, keys_at(script, number), seconds_of(number), region);
        if !is_whole(watched) {
            return WatchedRun { watched, number };
        }
    }
    WatchedRun {
        watched: Watched::Ended(Ending::Whole),
        number: frames,
    }
}

/// Plays a script as `run_script_shown` does, up to the first event with a fault for a stack region, and writes one line:
/// `FAULT Fn frame I pc AAAA bank BBB`, or else the last line of `run`: `WHOLE frames N`, `LOCKED frame I pc AAAA` or
/// `STOPPED frame I pc AAAA`. Fn is the lowest fault of the event, frames count from 0, AAAA is PC before the event, and BBB is the ROM
/// bank shown there. After a fault the console is as after that event. Where some certificate with this region is right for the
/// cartridge, the run is whole.
///
/// # Errors
///
/// OutFault where the sink fails before it took the line; it then has a beginning of it, and the console is as after the run.
pub fn watch_script_shown<W: Sink, P: Progress>(
    console: &mut Console<'_>,
    script: &[u8],
    frames: u32,
    region: Region,
    out: &mut W,
    progress: &mut P,
) -> Result<WatchedRun, OutFault>
    requires { W.has_failed out.old ≡ false }
    ensures written { IfOk result (λ told. IsWrittenWatch region script.now frames console.old told console.new (W.contents out.old) (W.contents out.new)) }
    ensures beginning { OnErr result (IsBegunWatch region script.now frames console.old console.new (W.contents out.old) (W.contents out.new)) }
    ensures failed { W.has_failed out.new ≡ is_err result }
    ensures verified { IsVerifiedFor (rom_of console.old) region → IfOk result (λ told. told.watched ≡ watched.Ended ending.Whole) }
{
    let run = watch_frames(console, script, frames, region, progress);
    progress.done();
    put_all(out, watch_line(run, console.pc()).as_slice())?;
    Ok(run)
}

/// Plays a script as `watch_script_shown` does, and says nothing meanwhile.
///
/// # Errors
///
/// OutFault where the sink fails before it took the line; it then has a beginning of it, and the console is as after the run.
pub fn watch_script<W: Sink>(
    console: &mut Console<'_>,
    script: &[u8],
    frames: u32,
    region: Region,
    out: &mut W,
) -> Result<WatchedRun, OutFault>
    requires { W.has_failed out.old ≡ false }
    ensures written { IfOk result (λ told. IsWrittenWatch region script.now frames console.old told console.new (W.contents out.old) (W.contents out.new)) }
    ensures beginning { OnErr result (IsBegunWatch region script.now frames console.old console.new (W.contents out.old) (W.contents out.new)) }
    ensures failed { W.has_failed out.new ≡ is_err result }
    ensures verified { IsVerifiedFor (rom_of console.old) region → IfOk result (λ told. told.watched ≡ watched.Ended ending.Whole) }
{
    watch_script_shown(console, script, frames, region, out, &mut Silence)
}
