//! Lists of events that are played.

ghost use Rattle.std.specs.Prelude.{◌≡◌, ◌≢◌, true, false, replicate, IfOk};
ghost use Rattle.gb_ops.specs.Faults as Spec;
ghost use Rattle.gb_events.specs.Verified.{VerifiedReplaysAreWhole};
ghost use Rattle.gb_events.specs.Replay.{events_of, IsCleared, IsReplay, WholeReplaysAreFaultless};

use crate::list::{EventList, Repeated};
use gb_ops::machine::{CodePlace, Event, Faults, Region};
use gb_plain::faults::faults;
use gb_plain::{MachineState, PlainMachine, Rom, no_faults};
use std::alloc::{AllocError, Global};

/// An event with a fault.
#[derive(Clone, Copy)]
pub struct FaultyEvent {
    /// How many events came before it.
    pub number: u64,
    pub faults: Faults,
    /// Where the processor was: PC before the event, and the ROM bank shown there.
    pub place: CodePlace,
    pub event: Event,
}

/// How a list's run ended.
#[derive(Clone, Copy)]
pub enum Replayed {
    /// At an event with a fault.
    Faulty(FaultyEvent),
    /// So many events, none of which had one.
    Whole(u64),
}

/// The plain machine at power-up with a cartridge, and zeros in RAM.
///
/// # Errors
///
/// AllocError where there is no room.
pub fn machine_of(alloc: Global, rom: &Rom<'_>) -> Result<PlainMachine, AllocError>
    ensures cleared { IfOk result (λ machine. IsCleared rom.now machine.state.machine) }
    ensures rom { IfOk result (λ machine. machine.state.rom ≡ rom.now) }
{
    let state = MachineState::of(alloc, rom)?;
    Ok(PlainMachine::new(state))
}

/// Whether there is one of the faults.
pub(crate) fn has_fault(faults: Faults) -> bool
    ensures some { result ≡ true → faults ≢ Spec.no_faults }
    ensures none { result ≡ false → faults ≡ Spec.no_faults }
{
    faults != no_faults()
}

/// Plays an event so many times, up to the first with a fault of a stack region, which isn't applied.
#[tactic(auto, using(crate::proofs::Replaying::none_played, crate::proofs::Replaying::repeated_more, crate::proofs::Replaying::repeated_faulty))]
fn play_repeated(machine: &mut PlainMachine, item: Repeated, region: Region) -> Replayed
    ensures rom { machine.new.state.rom ≡ machine.old.state.rom }
    ensures replay { IsReplay machine.old.state.rom region machine.old.state.machine (replicate item.count item.event) result machine.new.state.machine }
{
    for number in 0..item.count {
        let faults = faults(region, &machine.state, item.event);
        if has_fault(faults) {
            return Replayed::Faulty(FaultyEvent {
                number: u64::from(number),
                faults,
                place: machine.state.place(),
                event: item.event,
            });
        }
        machine.apply(item.event);
    }
    Replayed::Whole(u64::from(item.count))
}

/// Plays events, up to the first with a fault of a stack region, which isn't applied.
pub fn play_events(machine: &mut PlainMachine, list: &EventList, region: Region) -> Replayed
    ensures rom { machine.new.state.rom ≡ machine.old.state.rom }
    ensures replay { IsReplay machine.old.state.rom region machine.old.state.machine (events_of list.now) result machine.new.state.machine }
{
    let total = list.total();
    let mut number = 0u64;
    for item in list.as_slice() {
        match play_repeated(machine, *item, region) {
            Replayed::Whole(more) => number += more,
            Replayed::Faulty(faulty) => {
                return Replayed::Faulty(FaultyEvent {
                    number: number + faulty.number,
                    ..faulty
                });
            }
        }
    }
    Replayed::Whole(total)
}

/// The law of what is told: a replay is whole exactly where the machine's run over all events has no fault.
pub fn whole_replays_are_faultless()
    ensures { WholeReplaysAreFaultless }
{}

/// The law of what is told of a cartridge for which some certificate with the region is right: all its replays are whole.
pub fn verified_replays_are_whole()
    ensures { VerifiedReplaysAreWhole }
{}
