//! Running a cartridge by a script.

ghost use Rattle.std.specs.Prelude.{◌≡◌, false, is_err, IfOk, OnOk, OnErr};
ghost use Rattle.gb_text.specs.Sink.{Gains};
ghost use Rattle.gb_text.specs.Text.{GainsBeginning};
ghost use Rattle.gb_printed.specs.Script.{keys_at, seconds_of, IsRun, ending_text, run_text, IsWrittenRun, IsBegunRun};

use crate::screen::put_screen;
use bitflags::Flags;
use gb_text::line::Line;
use gb_text::put::put_all;
use gb_text::sink::{OutFault, Sink};
use gb_watch::{Console, Ending, Keys};

/// Hears how far a run has come.
pub trait Progress {
    /// Frame `number` of at most `frames` is next.
    fn frame(&mut self, number: u32, frames: u32);

    /// All frames ran; the text comes next.
    fn done(&mut self);
}

/// Hears nothing.
#[derive(Drop)]
pub struct Silence;

impl Progress for Silence {
    fn frame(&mut self, _number: u32, _frames: u32) {}

    fn done(&mut self) {}
}

/// How a run ended, with the number of its frames, or of the frame that wasn't whole.
#[derive(Clone, Copy)]
struct ScriptRun {
    ending: Ending,
    number: u32,
}

/// The keys of a frame: a byte of the script, none past its end.
pub fn keys_at(script: &[u8], number: u32) -> Keys
    ensures { result ≡ keys_at script.now number }
{
    let byte = script.get(number as usize).copied().unwrap_or(0);
    Keys::from_bits_retain(byte)
}

/// The seconds that pass with a frame: one with each sixtieth.
#[tactic(auto, unfolding(crate::specs::Script::seconds_of))]
pub fn seconds_of(number: u32) -> u32
    ensures { result ≡ seconds_of number }
{
    u32::from(number % 60 == 59)
}

/// Runs frames by a script, up to the first that isn't whole.
#[tactic(auto, using(crate::proofs::Playing::plays_none, crate::proofs::Playing::plays_more))]
fn run_frames<P: Progress>(
    console: &mut Console<'_>,
    script: &[u8],
    frames: u32,
    progress: &mut P,
) -> ScriptRun
    ensures { IsRun script.now frames console.old result.number result.ending console.new }
{
    for number in 0..frames {
        progress.frame(number, frames);
        let ending = console.frame(keys_at(script, number), seconds_of(number));
        match ending {
            Ending::Whole => {}
            Ending::Locked | Ending::Stopped => return ScriptRun { ending, number },
        }
    }
    ScriptRun {
        ending: Ending::Whole,
        number: frames,
    }
}

/// The line that says how a run ended, with the number of its frames or of the frame that wasn't whole.
pub fn ending_line(ending: Ending, number: u32, pc: u16) -> Line
    ensures { result ≡ ending_text ending number pc }
{
    let mut line = Line::new();
    line.push_text(match ending {
        Ending::Whole => b"WHOLE frames ",
        Ending::Locked => b"LOCKED frame ",
        Ending::Stopped => b"STOPPED frame ",
    });
    line.push_number(u64::from(number));
    if ending != Ending::Whole {
        line.push_text(b" pc ");
        line.push_word(pc);
    }
    line.end();
    line
}

/// Writes the screen's lines and the ending's line.
#[tactic(auto, using(gb_text::proofs::Gained::gains_both, gb_text::proofs::Gained::begins_first, gb_text::proofs::Gained::begins_second))]
fn put_run<W: Sink>(console: &Console<'_>, run: ScriptRun, out: &mut W) -> Result<(), OutFault>
    requires { W.has_failed out.old ≡ false }
    ensures whole { OnOk result (Gains (W.contents out.old) (run_text console.now run.number run.ending) (W.contents out.new)) }
    ensures beginning { OnErr result (GainsBeginning (W.contents out.old) (run_text console.now run.number run.ending) (W.contents out.new)) }
    ensures failed { W.has_failed out.new ≡ is_err result }
{
    put_screen(console.screen(), out)?;
    let line = ending_line(run.ending, run.number, console.pc());
    put_all(out, line.as_slice())
}

/// Runs a cartridge for so many frames, or up to the first that isn't whole, and says to `progress` how far it has come.
/// Byte k of the script holds the keys of frame k, past its end none; with each sixtieth frame one second passes. Behind
/// the run it writes the screen's 144 lines and then `WHOLE frames N`, `LOCKED frame I pc AAAA` or
/// `STOPPED frame I pc AAAA`, and answers how the run ended.
///
/// # Errors
///
/// OutFault where the sink fails before it took them all; it then has a beginning of them, and the console is as behind
/// the run.
pub fn run_script_shown<W: Sink, P: Progress>(
    console: &mut Console<'_>,
    script: &[u8],
    frames: u32,
    out: &mut W,
    progress: &mut P,
) -> Result<Ending, OutFault>
    requires { W.has_failed out.old ≡ false }
    ensures written { IfOk result (λ end. IsWrittenRun script.now frames console.old end console.new (W.contents out.old) (W.contents out.new)) }
    ensures beginning { OnErr result (IsBegunRun script.now frames console.old console.new (W.contents out.old) (W.contents out.new)) }
    ensures failed { W.has_failed out.new ≡ is_err result }
{
    let run = run_frames(console, script, frames, progress);
    progress.done();
    put_run(console, run, out)?;
    Ok(run.ending)
}

/// Runs a cartridge as `run_script_shown` does, and says nothing meanwhile.
///
/// # Errors
///
/// OutFault where the sink fails before it took the whole text; it then has a beginning of it, and the console is as
/// behind the run.
pub fn run_script<W: Sink>(
    console: &mut Console<'_>,
    script: &[u8],
    frames: u32,
    out: &mut W,
) -> Result<Ending, OutFault>
    requires { W.has_failed out.old ≡ false }
    ensures written { IfOk result (λ end. IsWrittenRun script.now frames console.old end console.new (W.contents out.old) (W.contents out.new)) }
    ensures beginning { OnErr result (IsBegunRun script.now frames console.old console.new (W.contents out.old) (W.contents out.new)) }
    ensures failed { W.has_failed out.new ≡ is_err result }
{
    run_script_shown(console, script, frames, out, &mut Silence)
}
