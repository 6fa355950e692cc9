//! What happened before the fault of a list of events, in an author's words.

use crate::free::is_free;
use crate::list::EventList;
use crate::play::{FaultyEvent, machine_of};
use gb_hunt::{
    FaultMoment, HardwareBytes, Met, Recorder, Rom, Sighting, Stepped, Symbols, TouchedByte, Trace,
    TracedFault, has_ram, touch_at_fault,
};
use gb_ops::machine::{CodePlace, Event, Read, Region};
use gb_plain::faults::met;
use gb_plain::possible::is_possible;
use gb_plain::{MachineState, PlainMachine};
use std::alloc::{AllocError, Global};

/// A list's run that met a fault.
#[derive(Clone, Copy)]
pub struct FaultyReplay<'a> {
    pub list: &'a EventList,
    pub faulty: FaultyEvent,
    /// The stack region for which it is one.
    pub region: Region,
}

/// The bytes that hardware gives an event.
fn given(state: &MachineState, event: Event, met: &Met) -> HardwareBytes {
    let Event::Run { fetch: _, reads } = event else {
        return HardwareBytes::Nothing;
    };
    let [first, second] = reads;
    match met.read {
        Read::Nothing => HardwareBytes::Nothing,
        Read::Byte(address) => {
            if is_free(state, address) {
                HardwareBytes::Byte(first)
            } else {
                HardwareBytes::Nothing
            }
        }
        Read::Word(address) => {
            match (
                is_free(state, address),
                is_free(state, address.wrapping_add(1)),
            ) {
                (true, true) => HardwareBytes::Bytes(first, second),
                (false, false) => HardwareBytes::Nothing,
                _ => HardwareBytes::Byte(first),
            }
        }
    }
}

/// Plays an event, which is recorded if it is possible.
fn record(
    machine: &mut PlainMachine,
    event: Event,
    recorder: &mut Recorder,
) -> Result<(), AllocError> {
    if !is_possible(&machine.state, event) {
        return Ok(());
    }
    let from = machine.state.place();
    let met = met(&machine.state, event);
    let given = given(&machine.state, event, &met);
    machine.apply(event);
    let stepped = Stepped {
        event,
        cycles: 0,
        met,
    };
    let sp = machine.state.processor().sp;
    recorder.take(from, &stepped, given, machine.state.place(), sp)
}

/// Plays so many events of a list, which are recorded.
fn record_events(
    machine: &mut PlainMachine,
    list: &EventList,
    number: u64,
    recorder: &mut Recorder,
) -> Result<(), AllocError> {
    let mut left = number;
    for item in list.as_slice() {
        for _ in 0..item.count {
            if left == 0 {
                return Ok(());
            }
            left -= 1;
            record(machine, item.event, recorder)?;
        }
    }
    Ok(())
}

/// The place of a byte that is at fault.
fn touched(state: &MachineState, touch: TouchedByte) -> (TouchedByte, CodePlace) {
    let address = touch.address;
    let bank = if address < 0x8000 {
        state.cartridge().shown_bank(address)
    } else {
        0
    };
    (touch, CodePlace { address, bank })
}

/// Plays a list again, up to its fault. None where memory ran out.
pub fn trace_replay<'a>(
    alloc: Global,
    rom: &Rom<'_>,
    run: &FaultyReplay<'_>,
    symbols: &'a Symbols<'a>,
) -> Option<Trace<'a>> {
    let faulty = run.faulty;
    let mut machine = machine_of(alloc, rom).ok()?;
    let mut recorder = Recorder::none(alloc);
    record_events(&mut machine, run.list, faulty.number, &mut recorder).ok()?;
    let sighting = Sighting {
        faults: faulty.faults,
        number: 0,
        place: faulty.place,
        event: faulty.event,
        met: met(&machine.state, faulty.event),
        processor: machine.state.processor(),
    };
    let touch = match touch_at_fault(&sighting, run.region) {
        Some(touch) => Some(touched(&machine.state, touch)),
        None => None,
    };
    let fault = TracedFault {
        moment: FaultMoment::Event(faulty.number),
        sighting,
        region: run.region,
        touch,
        has_ram: has_ram(rom),
    };
    Some(Trace::new(symbols, fault, recorder))
}
