//! Frames that are watched, and whose code is noted.

ghost use Rattle.std.specs.Prelude.{◌≡◌, true, false, IfSome};
ghost use Rattle.gb_faults.specs.Quiet.{IsGuard};
ghost use Rattle.gb_trace.specs.Below.gb_console.Console.{rom_of};
ghost use Rattle.gb_trace.specs.Below.gb_console.Frame.{IsReady};

use crate::seen::Seen;
use gb_faults::{Guard, event_faults, no_faults};
use gb_ops::machine::Region;
use gb_ppu::picture::FRAME_CYCLES;
use gb_trace::{Console, Ending, Keys, Rom};

/// How a frame ended.
#[derive(Clone, Copy, PartialEq, Eq)]
pub(crate) enum Explored {
    /// All of it passed without a fault.
    Whole,
    /// The console does nothing any more.
    Still,
    /// An event had a fault.
    Faulted,
}

/// A frame's ending, where it had no fault.
fn outcome_of(ending: Ending) -> Explored {
    match ending {
        Ending::Whole => Explored::Whole,
        Ending::Locked | Ending::Stopped => Explored::Still,
    }
}

/// Notes the code that comes next.
#[inline(always)]
fn note(console: &Console<'_>, seen: &mut Seen) {
    let address = console.pc();
    let bank = if address < 0x8000 {
        console.memory().shown_bank(address)
    } else {
        0
    };
    seen.visit(bank, address);
}

/// One event, whose faults are computed. Answers how the frame ended, if it did.
fn take_step(console: &mut Console<'_>, keys: Keys, seconds: u32, guard: &Guard) -> Option<Explored>
    requires { IsGuard (rom_of console.old) guard.now }
    ensures { IsGuard (rom_of console.new) guard.now }
{
    let limits = guard.limits(console.memory());
    let processor = console.processor();
    let before = console.cycles();
    let stepped = console.advance(keys, seconds);
    let faults = event_faults(guard.region, &limits, processor, stepped.event, stepped.met);
    if faults != no_faults() {
        return Some(Explored::Faulted);
    }
    let is_passed = before + u16::from(stepped.cycles) >= FRAME_CYCLES;
    console.ending(is_passed).map(outcome_of)
}

/// Whether an instruction comes next with nothing else, and surely has no fault.
#[inline(always)]
fn goes_surely(console: &mut Console<'_>, keys: Keys, guard: &Guard) -> bool
    requires { IsGuard (rom_of console.old) guard.now }
    ensures same { console.new ≡ console.old }
    ensures ready { result ≡ true → IsReady console.old keys }
{
    console.is_ready(keys) && guard.is_surely_faultless(&console.processor(), console.memory())
}

/// Lets a processor wait that waits.
fn wait(console: &mut Console<'_>, keys: Keys, guard: &Guard)
    requires { IsGuard (rom_of console.old) guard.now }
    ensures { IsGuard (rom_of console.new) guard.now }
{
    let processor = console.processor();
    if !processor.locked && !processor.stopped {
        console.wait(keys);
    }
}

/// Instructions, while one comes next that surely has no fault and the frame isn't ended; then a processor that waits
/// waits for a change. Answers how the frame ended, if it did.
fn go_on(console: &mut Console<'_>, keys: Keys, guard: &Guard, seen: &mut Seen) -> Option<Explored>
    requires { IsGuard (rom_of console.old) guard.now }
    ensures { IsGuard (rom_of console.new) guard.now }
{
    for _ in 0..FRAME_CYCLES {
        if !goes_surely(console, keys, guard) {
            break;
        }
        note(console, seen);
        if console.run(keys) {
            return Some(Explored::Whole);
        }
    }
    wait(console, keys, guard);
    None
}

/// The guard of a region in a console's cartridge.
fn guard_of(console: &Console<'_>, region: Region) -> Option<Guard>
    ensures { IfSome result (IsGuard (rom_of console.now)) }
{
    match Rom::parse(console.memory().cartridge()) {
        Ok(rom) => Some(Guard::of(region, &rom)),
        Err(_) => None,
    }
}

/// The steps of a frame, up to the first that has a fault.
fn take_steps(
    console: &mut Console<'_>,
    keys: Keys,
    seconds: u32,
    guard: &Guard,
    seen: &mut Seen,
) -> Explored
    requires { IsGuard (rom_of console.old) guard.now }
{
    let mut passed = seconds;
    for _ in 0..FRAME_CYCLES {
        note(console, seen);
        if let Some(explored) = take_step(console, keys, passed, guard) {
            return explored;
        }
        passed = 0;
        if let Some(explored) = go_on(console, keys, guard, seen) {
            return explored;
        }
    }
    Explored::Whole
}

/// A frame with these keys, watched for faults of a stack region, whose code is noted.
pub(crate) fn explore_frame(
    console: &mut Console<'_>,
    keys: Keys,
    seconds: u32,
    region: Region,
    seen: &mut Seen,
) -> Explored {
    match guard_of(console, region) {
        Some(guard) => take_steps(console, keys, seconds, &guard, seen),
        None => Explored::Still,
    }
}
