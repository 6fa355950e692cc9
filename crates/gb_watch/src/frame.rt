//! Frames that are watched.

ghost use Rattle.std.specs.Prelude.{◌≡◌, ◌≢◌, ◌<◌, ◌≤◌, true, false};
ghost use Rattle.gb_ops.specs.Faults as Spec;
ghost use Rattle.gb_ops.specs.Faults.{code_place};
ghost use Rattle.gb_console.specs.Console.{rom_of};
ghost use Rattle.gb_faults.specs.Below.gb_cpu.Choice.{is_idle};
ghost use Rattle.gb_faults.specs.Quiet.{IsGuard};
ghost use Rattle.gb_watch.specs.Ready.{IsSurelyReady, IsWatchedStep, HasGone};
ghost use Rattle.gb_watch.specs.Verified.{IsVerifiedFor};
ghost use Rattle.gb_watch.specs.Watch.{IsWatchedFrame};
ghost use Rattle.gb_watch.specs.declared.sighting.Watched.TheVariants as watched;
ghost use Rattle.gb_console.specs.declared.frame.Ending.TheVariants as ending;

use crate::sighting::{Sighting, Watched};
use gb_console::{Console, Ending, FRAME_CYCLES, Keys};
use gb_faults::{Guard, event_faults, no_faults};
use gb_header::Rom;
use gb_ops::machine::{CodePlace, Faults, Region};

/// What a step was.
#[derive(Clone, Copy)]
enum Step {
    /// It had no fault, and the frame goes on.
    Goes,
    /// It had none, and ended the frame.
    Ends(Ending),
    /// It had one.
    Faults(Sighting),
}

/// Where the processor is: PC, and the ROM bank shown there.
#[tactic(auto, unfolding(gb_ops::specs::Faults::code_place))]
pub fn place_now(console: &Console<'_>) -> CodePlace
    ensures { result ≡ code_place console.now.contents.view console.now.cpu.processor.pc }
{
    let address = console.pc();
    let bank = if address < 0x8000 {
        console.memory().shown_bank(address)
    } else {
        0
    };
    CodePlace { address, bank }
}

/// Whether there is none of the faults.
fn has_none(faults: Faults) -> bool
    ensures none { result ≡ true → faults ≡ Spec.no_faults }
    ensures some { result ≡ false → faults ≢ Spec.no_faults }
{
    faults == no_faults()
}

/// One step, whose faults are told exactly; `number` is how many steps of the frame came before it.
fn watch_step(
    console: &mut Console<'_>,
    keys: Keys,
    seconds: u32,
    guard: &Guard,
    number: u16,
) -> Step
    requires { IsGuard (rom_of console.old) guard.now }
    ensures { IsWatchedStep guard.now.region console.old keys seconds number result console.new }
{
    console.rests();
    let limits = guard.limits(console.memory());
    let processor = console.processor();
    let place = place_now(console);
    let before = console.cycles();
    let stepped = console.advance(keys, seconds);
    let faults = event_faults(guard.region, &limits, processor, stepped.event, stepped.met);
    if !has_none(faults) {
        return Step::Faults(Sighting {
            faults,
            number,
            place,
            event: stepped.event,
            met: stepped.met,
            processor,
        });
    }
    match console.ending(before + u16::from(stepped.cycles) >= FRAME_CYCLES) {
        Some(ending) => Step::Ends(ending),
        None => Step::Goes,
    }
}

/// Whether an instruction comes next with nothing else, and surely has no fault.
#[inline(always)]
fn goes_surely(console: &mut Console<'_>, keys: Keys, guard: &Guard) -> bool
    requires { IsGuard (rom_of console.old) guard.now }
    ensures same { console.new ≡ console.old }
    ensures ready { result ≡ true → IsSurelyReady guard.now.region console.old keys }
{
    console.rests();
    console.is_ready(keys) && guard.is_surely_faultless(&console.processor(), console.memory())
}

/// Instructions, while one comes next that surely has no fault and the frame isn't ended; then a processor that
/// waits waits for a change. Adds the number of these steps, and answers how the frame ended, if it did.
fn go_on(console: &mut Console<'_>, keys: Keys, guard: &Guard, number: &mut u16) -> Option<Ending>
    requires running { is_idle console.old.cpu ≡ false }
    requires guard { IsGuard (rom_of console.old) guard.now }
    requires counted { number.old ≤ console.old.cycles }
    requires small { console.old.cycles < 17556 }
    ensures { HasGone guard.now.region console.old keys number.old number.new result console.new }
{
    let mut goes = goes_surely(console, keys, guard);
    while goes {
        let is_passed = console.run(keys);
        *number += 1;
        goes = goes_surely(console, keys, guard);
        match console.ending_unless(goes, is_passed) {
            Some(ending) => return Some(ending),
            None => {}
        }
    }
    let waited = console.wait(keys);
    *number += u16::from(waited);
    None
}

/// The guard of a region in a console's cartridge.
fn guard_of(console: &Console<'_>, region: Region) -> Guard
    ensures guards { IsGuard (rom_of console.now) result }
    ensures region { result.region ≡ region }
{
    match Rom::parse(console.memory().cartridge()) {
        Ok(rom) => Guard::of(region, &rom),
        Err(_) => unreachable!(),
    }
}

/// The steps of a frame, up to the first that has a fault.
fn watch_steps(console: &mut Console<'_>, keys: Keys, seconds: u32, region: Region) -> Watched
    ensures { IsWatchedFrame region console.old keys seconds result console.new }
{
    let guard = guard_of(console, region);
    let mut number = 0;
    let mut passed = seconds;
    loop {
        match watch_step(console, keys, passed, &guard, number) {
            Step::Ends(ending) => return Watched::Ended(ending),
            Step::Faults(sighting) => return Watched::Faulted(sighting),
            Step::Goes => {
                passed = 0;
                number += 1;
            }
        }
        match go_on(console, keys, &guard, &mut number) {
            Some(ending) => return Watched::Ended(ending),
            None => {}
        }
    }
}

/// A frame as `Console::frame` has it, up to the first event with a fault for a stack region: then the console
/// is as after that event. Where some certificate with this region is right for the cartridge, every frame is
/// whole and no fault is told, with any keys and seconds.
pub fn watch_frame(console: &mut Console<'_>, keys: Keys, seconds: u32, region: Region) -> Watched
    ensures frame { IsWatchedFrame region console.old keys seconds result console.new }
    ensures verified { IsVerifiedFor (rom_of console.old) region → result ≡ watched.Ended ending.Whole }
{
    // For the last promise: the cartridge is one, and each state is reached.
    console.holds_cartridge();
    console.reached();
    let watched = watch_steps(console, keys, seconds, region);
    console.reached();
    watched
}
