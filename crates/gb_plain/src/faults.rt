//! The faults of an event.

ghost use Rattle.std.specs.Prelude.{◌≡◌};
ghost use Rattle.gb_ops.specs.Machine.{fetched};
ghost use Rattle.gb_ops.specs.Table.{decoded};
ghost use Rattle.gb_ops.specs.Play as Play;
ghost use Rattle.gb_cpu.specs.Met.{HasMet, IsRowMet};
ghost use Rattle.gb_plain.specs.Shown.{bus};

use crate::fetch::{fetched, loaded};
use crate::possible::is_possible;
use crate::state::MachineState;
use gb_cpu::step::Met;
use gb_effects::advance::advance;
use gb_effects::effect::{perform, read_of};
use gb_faults::{event_faults, no_faults};
use gb_ops::decode::decode;
use gb_ops::machine::{Event, Faults, Read, Region, Write};

/// What an instruction meets, with the bytes that free reads give.
fn run_met(state: &MachineState, fetch: &[u8], reads: &[u8]) -> Met
    ensures bytes { result.bytes ≡ fetched (bus state.now.rom state.now.machine).memory state.now.machine.processor fetch.now }
    ensures row { IsRowMet (decoded (fetched (bus state.now.rom state.now.machine).memory state.now.machine.processor fetch.now)) (bus state.now.rom state.now.machine) reads.now result.read result.write }
{
    let bytes = fetched(state, fetch);
    match decode(&bytes) {
        None => Met {
            bytes,
            read: Read::Nothing,
            write: Write::Nothing,
        },
        Some(row) => {
            let mut processor = state.processor();
            advance(&mut processor, row);
            let read = read_of(row.op, processor);
            let values = loaded(state, read, reads);
            let outcome = perform(row.op, &mut processor, values.low, values.high);
            Met {
                bytes,
                read,
                write: outcome.write,
            }
        }
    }
}

/// What an event meets.
pub fn met(state: &MachineState, event: Event) -> Met
    ensures { HasMet (bus state.now.rom state.now.machine) event result }
{
    let processor = state.processor();
    match event {
        Event::Run { fetch, reads } => run_met(state, &fetch, &reads),
        Event::HaltStay | Event::HaltBug | Event::Irq(_) | Event::Wait(_) => Met {
            bytes: [0, 0, 0],
            read: Read::Nothing,
            write: Write::Push(processor.sp, processor.pc),
        },
    }
}

/// The faults of an event; one that isn't possible has none.
#[tactic(auto, unfolding(gb_ops::specs::Play::faults, gb_ops::specs::Play::within))]
pub fn faults(region: Region, state: &MachineState, event: Event) -> Faults
    ensures { result ≡ Play.faults state.now.rom region state.now.machine event }
{
    if !is_possible(state, event) {
        return no_faults();
    }
    let met = met(state, event);
    event_faults(region, &state.limits(), state.processor(), event, met)
}
